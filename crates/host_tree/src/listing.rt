//! Lists the files below a folder, for the call `list` of the tree. The rule is in
//! `docs/crash-safety.md`, "What the host's tree does", the row of `list`.
ghost use Rattle.std.specs.Prelude.{◌≡◌, ◌↔◌, ◌-◌, [], ◌∷◌, ◌++◌, ℕ, List, All, Contains, IfOk, IsTrue, OnErr, OnOk, Some, length, slice_get};
ghost use Rattle.std.specs.Cmp.Lexicographic.{slice_cmp};
ghost use Rattle.std.specs.List.Sorted.{IsSorted};
ghost use Rattle.std.specs.Ordering.{nat_cmp};
ghost use Rattle.base_core.specs.Files.{IsFolderOf};
ghost use Rattle.base_core.specs.Listed.{AreSortedAndEachBelowFolder, AreSortedDistinctTexts};

use base_core::{Name, Names, is_folder_of};
use host_root::{Found, Host, HostFault, Reason, Root, path_text};
use std::alloc::{AllocError, Global};
use std::fs;

/// The names of all regular files below a folder, at any depth, in byte order, each once. Names do
/// not show which files are executable and which folders are empty, so `has_omitted` is set if
/// there is such a file or folder.
pub fn list_below<R: Host>(
    root: &mut Root<'_, R>,
    alloc: Global,
    folder: &Name,
    has_omitted: &mut bool,
) -> Result<Names, HostFault>
    ensures { IfOk result (AreSortedAndEachBelowFolder folder.now) }
{
    root.take_lock()?;
    // The list of folders begins with the given folder, if it exists.
    let mut walk = Walk {
        alloc,
        folders: Vec::new(alloc),
        files: Vec::new(alloc),
    };
    if root.find(folder.as_bytes())?.is_folder() {
        keep(&mut walk.folders, folder.copy(alloc)?)?;
    }
    // The loop ends when no folder is left; the bound shows the checker that the loop ends.
    for _ in 0..u64::MAX {
        let Some(next) = walk.folders.pop() else {
            break;
        };
        root.keep_known(next.as_bytes())?;
        walk.visit(root, folder, &next, has_omitted)?;
    }
    Ok(walk.into_names()?)
}

/// The folders that are still to be visited, and the files that were found.
#[derive(Drop)]
struct Walk {
    /// Where memory is taken.
    alloc: Global,
    /// The folders that are still to be visited.
    folders: Vec<Name>,
    /// The files that were found.
    files: Vec<Name>,
}

impl Walk {
    /// Adds the files and folders directly in `folder`, which is `top`, the folder that is listed,
    /// or is below it. Sets `has_omitted` if `folder` is empty, or has an executable file.
    fn visit<R: Host>(
        &mut self,
        root: &mut Root<'_, R>,
        top: &Name,
        folder: &Name,
        has_omitted: &mut bool,
    ) -> Result<(), HostFault>
        // All files that were found so far are below the top folder.
        requires { All (IsFolderOf top.now) self.old.files.items }
        // All files that were found are below the top folder.
        ensures { All (IsFolderOf top.now) self.new.files.items }
    {
        let mut is_empty = true;
        for entry in fs::read_dir(root.runtime(), path_text(folder.as_bytes())?)? {
            let entry = entry?;
            is_empty = false;
            self.meet(root, top, entry.path().as_str().as_bytes(), has_omitted)?;
        }
        if is_empty {
            *has_omitted = true;
        }
        Ok(())
    }

    /// Adds the file or folder at a path. A path that is no valid name is a fault; so the depth is
    /// limited. A path that is not below the top folder is a fault too.
    fn meet<R: Host>(
        &mut self,
        root: &mut Root<'_, R>,
        top: &Name,
        path: &[u8],
        has_omitted: &mut bool,
    ) -> Result<(), HostFault>
        // All files that were found so far are below the top folder.
        requires { All (IsFolderOf top.now) self.old.files.items }
        // All files that were found are below the top folder.
        ensures { All (IsFolderOf top.now) self.new.files.items }
    {
        let Some(name) = Name::read(self.alloc, path)? else {
            return Err(HostFault::at(self.alloc, Reason::NoName, path));
        };
        if !is_folder_of(top.as_bytes(), path) {
            return Err(HostFault::at(self.alloc, Reason::NoName, path));
        }
        match root.find(path)? {
            // The folder is visited later.
            Found::Folder => Ok(keep(&mut self.folders, name)?),
            Found::File(file) => {
                if file.rights.may_execute() {
                    *has_omitted = true;
                }
                Ok(keep(&mut self.files, name)?)
            }
            // The entry was removed since the folder was read.
            Found::Nothing => Ok(()),
        }
    }

    /// The names of the files that were found, in byte order, each once: a folder that changes
    /// while it is read may show a file twice.
    fn into_names(mut self) -> Result<Names, AllocError>
        // If all found files are below a folder, the result has only names below this folder.
        ensures { (root : List ℕ) → All (IsFolderOf root) self.files.items
            → IfOk result (AreSortedAndEachBelowFolder root) }
    {
        self.files.sort_by(|a, b| a.as_bytes().cmp(b.as_bytes()))?;
        let names = each_once(self.alloc, self.files)?;
        // A law for the proof, which computes nothing: each element of `names` is a name.
        names.are_names();
        Ok(names)
    }
}

/// The names of a sorted list, each once: of equal names, which are next to each other in the list,
/// the first is kept.
fn each_once(alloc: Global, sorted: Vec<Name>) -> Result<Names, AllocError>
    // The list is sorted in byte order.
    requires { IsSorted (slice_cmp nat_cmp) sorted.items }
    // The result is in byte order, each name once.
    ensures rising { IfOk result AreSortedDistinctTexts }
    // Each name of the result is one of the list.
    ensures each { IfOk result (All (Contains sorted.items)) }
{
    let mut names = Names::new(alloc);
    for name in sorted {
        // This name equals the one before it.
        if is_last(&names, &name) {
            continue;
        }
        names.push(name)?;
    }
    Ok(names)
}

/// Whether a name is the last one of the list.
fn is_last(names: &Names, name: &Name) -> bool
    ensures { IsTrue result ↔ (slice_get names.now (length names.now - 1) ≡ Some name.now) }
{
    if names.is_empty() {
        return false;
    }
    names.get(names.len() - 1).as_bytes() == name.as_bytes()
}

/// Appends a name to a list. If out of memory, the list is unchanged.
fn keep(list: &mut Vec<Name>, name: Name) -> Result<(), AllocError>
    // On success the name is added at the end.
    ensures ok { OnOk result (list.new.items ≡ list.old.items ++ name ∷ []) }
    // An error leaves the list as it was.
    ensures err { OnErr result (list.new.items ≡ list.old.items) }
{
    list.push(name)?;
    Ok(())
}
