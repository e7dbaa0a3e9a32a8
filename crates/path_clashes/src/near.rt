//! The search near one written name: for a folder above it, and for a name below it, that is
//! present after the change. The rule is in `docs/commands.md`, "What a change does with files",
//! test 2: which names are present afterwards. The README of this crate says why no other names are
//! searched.

ghost use Rattle.std.specs.Prelude.{◌≡◌, true, false, not, IfOk, List, All, map};
ghost use Rattle.std.specs.List.{find};
ghost use Rattle.std.specs.List.Sorted.{IsSorted};
ghost use Rattle.adb_fields.specs.JoinedPath.{joined_path};
ghost use Rattle.base_core.specs.Calls.{IfObservable};
ghost use Rattle.base_core.specs.Name.{IsName};
ghost use Rattle.base_core.specs.Read.{OnlyReads};
ghost use Rattle.base_core.specs.Tree.{files_of};
ghost use Rattle.base_core.specs.ByteOrder.{bytes_cmp};
ghost use Rattle.path_clashes.specs.Clash.{is_present_after_change};
ghost use Rattle.path_clashes.specs.NearName.{IsShortestFolderOrNone, IsFirstNameBelowOrNone, files_with_only_name, is_name_present, name_if_holds};
ghost use Rattle.path_clashes.specs.WrittenPaths.{name_change_of_paths, is_one_of_paths};

use crate::clash::IsReleased;
use adb_fields::FilePath;
use base_core::{Name, Names, Tree, TreeFault};
use std::alloc::{AllocError, Global};

/// Whether the name is one of the paths, by a binary search.
fn is_one_of_paths(paths: &[FilePath<'_>], name: &[u8]) -> bool
    // The paths are in byte order.
    requires { IsSorted bytes_cmp (map joined_path paths.now) }
    ensures { result ≡ is_one_of_paths paths.now name.now }
{
    let path = FilePath { folder: b"", name };
    paths.binary_search_by(|other| other.compare(&path)).is_ok()
}

/// Whether the name has a file that the change does not remove. `let_go` says which names the
/// change releases; for these the tree is not asked.
fn is_name_present<T: Tree, G: IsReleased>(
    tree: &mut T,
    let_go: &G,
    name: &Name,
) -> Result<bool, TreeFault>
    // On Ok, if the tree is observable, the result says whether the name has a file in the tree,
    // and is not released.
    ensures answer { IfOk result (λ present_files. IfObservable (T.history tree.old) (λ v.
        present_files ≡ is_name_present (G.does_release let_go.now) (files_of v) name.now)) }
    // On Ok, a name that the change releases does not count as present.
    ensures stays { IfOk result (λ present_files.
        present_files ≡ true → G.does_release let_go.now name.now ≡ false) }
    // The tree is only read: no file changes, no I/O error is hidden, and no call is a misuse.
    ensures tree { OnlyReads TreeFault.Disk (T.history tree.old) (T.history tree.new)
        (T.counts tree.old) (T.counts tree.new) result }
{
    if let_go.does_release(name.as_bytes()) {
        return Ok(false);
    }
    let size = tree.size(name)?;
    Ok(size.is_some())
}

/// The folder's name, if it is that of a file after the change: it is one of the written paths, or
/// it has a file that the change does not remove.
fn folder_after<T: Tree, G: IsReleased>(
    alloc: Global,
    tree: &mut T,
    written: &[FilePath<'_>],
    let_go: &G,
    folder: &[u8],
) -> Result<Option<Name>, TreeFault>
    // The written paths are in byte order.
    requires sorted { IsSorted bytes_cmp (map joined_path written.now) }
    // Each written path is a name of a tree.
    requires names { All IsName (map joined_path written.now) }
    // On Ok, if the tree is observable, the folder's name is returned exactly if it is present
    // after the change.
    ensures found { IfOk result (λ found. IfObservable (T.history tree.old) (λ v.
        found ≡ name_if_holds (is_present_after_change (name_change_of_paths written.now
        (G.does_release let_go.now))
        (files_of v) folder.now) folder.now)) }
    // Over any tree, the result is right for files that have only the found name, or none without
    // one.
    ensures may { IfOk result (λ found.
        found ≡ name_if_holds (is_present_after_change (name_change_of_paths written.now
        (G.does_release let_go.now))
        (files_with_only_name found) folder.now) folder.now) }
    // The tree is only read: no file changes, no I/O error is hidden, and no call is a misuse.
    ensures tree { OnlyReads TreeFault.Disk (T.history tree.old) (T.history tree.new)
        (T.counts tree.old) (T.counts tree.new) result }
{
    let Some(name) = Name::read(alloc, folder)? else {
        return Ok(None);
    };
    if is_one_of_paths(written, folder) || is_name_present(tree, let_go, &name)? {
        return Ok(Some(name));
    }
    Ok(None)
}

/// The shortest folder above the name, of at least `len` bytes, whose name is that of a file after
/// the change.
pub(crate) fn first_folder<T: Tree, G: IsReleased>(
    alloc: Global,
    tree: &mut T,
    written: &[FilePath<'_>],
    let_go: &G,
    name: &[u8],
    len: usize,
) -> Result<Option<Name>, TreeFault>
    // The written paths are in byte order.
    requires sorted { IsSorted bytes_cmp (map joined_path written.now) }
    // Each written path is a name of a tree.
    requires names { All IsName (map joined_path written.now) }
    // On Ok, if the tree is observable, the result is the shortest such folder, or None.
    ensures found { IfOk result (λ found. IfObservable (T.history tree.old) (λ v.
        IsShortestFolderOrNone (name_change_of_paths written.now (G.does_release let_go.now))
        (files_of v)
        name.now len found)) }
    // Over any tree, the result is right for files that have only the found name, or none without
    // one.
    ensures may { IfOk result (λ found.
        IsShortestFolderOrNone (name_change_of_paths written.now (G.does_release let_go.now))
        (files_with_only_name found)
        name.now len found) }
    // The tree is only read: no file changes, no I/O error is hidden, and no call is a misuse.
    ensures tree { OnlyReads TreeFault.Disk (T.history tree.old) (T.history tree.new)
        (T.counts tree.old) (T.counts tree.new) result }
{
    // Each `/` of the name from the index `len` on ends a folder above it, the shortest first.
    for i in len..name.len() {
        if name[i] == b'/' {
            if let Some(folder) = folder_after(alloc, tree, written, let_go, &name[..i])? {
                return Ok(Some(folder));
            }
        }
    }
    Ok(None)
}

/// The first of the names that the change does not release, or None if it releases all.
fn first_to_stay<G: IsReleased>(
    alloc: Global,
    names: &Names,
    let_go: &G,
) -> Result<Option<Name>, AllocError>
    // On Ok, the result is the first name of the list that is not released.
    ensures { IfOk result (λ found.
        found ≡ find (λ name. not (G.does_release let_go.now name)) names.now) }
{
    for i in 0..names.len() {
        let name = names.get(i);
        if !let_go.does_release(name.as_bytes()) {
            return Ok(Some(name.copy(alloc)?));
        }
    }
    Ok(None)
}

/// The first name in byte order, below the folder, whose file the change does not remove.
pub(crate) fn first_below<T: Tree, G: IsReleased>(
    alloc: Global,
    tree: &mut T,
    let_go: &G,
    folder: &Name,
) -> Result<Option<Name>, TreeFault>
    // On Ok, if the tree is observable, the result is the first such name, or None.
    ensures found { IfOk result (λ found. IfObservable (T.history tree.old) (λ v.
        IsFirstNameBelowOrNone (G.does_release let_go.now) (files_of v) folder.now found)) }
    // Over any tree, the result is right for files that have only the found name, or none without
    // one.
    ensures may { IfOk result (λ found.
        IsFirstNameBelowOrNone (G.does_release let_go.now)
        (files_with_only_name found) folder.now found) }
    // The tree is only read: no file changes, no I/O error is hidden, and no call is a misuse.
    ensures tree { OnlyReads TreeFault.Disk (T.history tree.old) (T.history tree.new)
        (T.counts tree.old) (T.counts tree.new) result }
{
    // The tree lists names in byte order.
    let names = tree.list(alloc, folder)?;
    let first = first_to_stay(alloc, &names, let_go)?;
    Ok(first)
}
