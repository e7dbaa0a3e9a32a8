//! The folders of a package, and the folder of each file below a folder of the tree. The rule is in
//! `docs/commands.md`, "`mkpkg`", part "Files": "The package lists DIR itself as the root folder.
//! It also lists each folder below DIR that has a file at any depth".
ghost use Rattle.std.specs.Prelude.{◌≡◌, ◌<◌, ◌≤◌, ◌+◌, ◌-◌, not, [], length, drop, map, replicate, slice_get, OnOk, IfOk};
ghost use Rattle.std.specs.List.{suffix_len};
ghost use Rattle.package_files.specs.Folders.{is_slash, folder_of, last_part_of, folders_above, sorted_folders_with_names_inserted, with_folder_inserted, path_relative_to, all_folders_above, tree_names_in_package_folder};
ghost use Rattle.package_files.specs.BorrowedNames.{IsIndexOf, names_borrowed};

use base_core::{Name, Names};
use std::alloc::{AllocError, Global};
use std::marker::Model;

/// The names of a package's folders, in byte order, each once.
#[derive(Drop)]
pub(crate) struct FolderNames<'a> {
    /// The names, in byte order, each once; they are borrowed.
    names: Vec<&'a [u8]>,
}

impl<'a> Model for FolderNames<'a> {
    ghost use Rattle.std.specs.Prelude.{ℕ, List, map};
    ghost use Rattle.std.specs.Ordering.{nat_cmp};
    ghost use Rattle.std.specs.Cmp.Lexicographic.{slice_cmp};
    ghost use Rattle.std.specs.List.Sorted.{IsStrictlySortedBy};

    ghost Value = { List (List ℕ) };

    // Contracts see the names of the folders.
    ghost view = { λ folders. map (λ name. name.now) folders.names.items };

    // The names are in byte order, each once.
    ghost invariant = { λ folders. IsStrictlySortedBy (slice_cmp nat_cmp)
        (map (λ name. name.now) folders.names.items) };
}

impl<'a> FolderNames<'a> {
    /// No folders yet.
    pub(crate) fn new(alloc: Global) -> FolderNames<'a>
        ensures { result ≡ [] }
    {
        FolderNames {
            names: Vec::new(alloc),
        }
    }

    /// Adds the folders that contain a path, at any depth: the root, and the text before each `/`.
    pub(crate) fn add_over(&mut self, path: &'a [u8]) -> Result<(), AllocError>
        ensures { OnOk result (self.new
            ≡ sorted_folders_with_names_inserted self.old (folders_above path.now)) }
    {
        self.add(&path[..0])?;
        for (i, b) in path.iter().enumerate() {
            if *b == b'/' {
                self.add(&path[..i])?;
            }
        }
        Ok(())
    }

    /// Inserts a folder in byte order, unless the list already has it. If the paths come in byte
    /// order, nearly all folders come in order too, so few folders are moved.
    fn add(&mut self, folder: &'a [u8]) -> Result<(), AllocError>
        ensures { OnOk result (self.new ≡ with_folder_inserted folder.now self.old) }
    {
        let Err(at) = self.names.binary_search(&folder) else {
            return Ok(());
        };
        self.names.insert(at, folder)?;
        Ok(())
    }

    /// How many folders there are.
    pub(crate) fn len(&self) -> usize
        ensures { result ≡ length self.now }
    {
        self.names.len()
    }

    /// The name of the folder with the index `i`, counted from 0.
    pub(crate) fn get(&self, i: usize) -> &'a [u8]
        // The index is that of an element.
        requires { i < length self.now }
        ensures { slice_get self.now i ≡ Some result.now }
    {
        self.names[i]
    }

    /// The index of this folder, counted from 0; None if the list does not have it. By binary
    /// search.
    fn index_of(&self, folder: &[u8]) -> Option<usize>
        ensures { IsIndexOf folder.now self.now result }
    {
        self.names.binary_search(&folder).ok()
    }
}

/// The names of a package's folders, given the names of files that are listed below the folder
/// `dir` of the tree. If the list has the folder of a path, it has all folders above the path, so
/// these are not searched again.
pub(crate) fn all_folders_above<'a>(
    alloc: Global,
    dir: &[u8],
    names: &'a Names,
) -> Result<FolderNames<'a>, AllocError>
    ensures { IfOk result
        (λ folders. folders ≡ all_folders_above (map (path_relative_to dir.now) names.now)) }
{
    let mut folders = FolderNames::new(alloc);
    for i in 0..names.len() {
        let path = path_relative_to(dir.len(), names.get(i).as_bytes());
        // If the list has the folder of this path, it has all folders above it.
        if folders.index_of(folder_of(path)).is_none() {
            folders.add_over(path)?;
        }
    }
    Ok(folders)
}

/// For each of these folders of the package, the names in the tree of the files directly in it, in
/// the listed order.
pub(crate) fn names_in_folders<'a>(
    alloc: Global,
    dir: &[u8],
    names: &'a Names,
    folders: &FolderNames<'_>,
) -> Result<Vec<Vec<&'a Name>>, AllocError>
    // There is a list for each folder, in the order of the folders.
    ensures { IfOk result (λ files. map names_borrowed files.items ≡ map
        (tree_names_in_package_folder dir.now names.now) folders.now) }
{
    let mut files = empty_lists(alloc, folders.len())?;
    for i in 0..names.len() {
        let name = names.get(i);
        let folder = folder_of(path_relative_to(dir.len(), name.as_bytes()));
        // The index of the file's folder.
        if let Some(at) = folders.index_of(folder) {
            files[at].push(name)?;
        }
    }
    Ok(files)
}

/// A list of `len` empty lists of names.
fn empty_lists<'a>(alloc: Global, len: usize) -> Result<Vec<Vec<&'a Name>>, AllocError>
    ensures { IfOk result (λ lists. map names_borrowed lists.items ≡ replicate len []) }
{
    let mut lists = Vec::new(alloc);
    for _ in 0..len {
        lists.push(Vec::new(alloc))?;
    }
    Ok(lists)
}

/// The folder of a path, which is empty for the root.
pub fn folder_of(path: &[u8]) -> &[u8]
    ensures { result.now ≡ folder_of path.now }
{
    &path[..part_start(path).saturating_sub(1)]
}

/// The last part of a path.
pub(crate) fn last_part_of(path: &[u8]) -> &[u8]
    ensures { result.now ≡ last_part_of path.now }
{
    &path[part_start(path)..]
}

/// The offset at which the last part of a path begins: after its last `/`, or 0.
fn part_start(path: &[u8]) -> usize
    // The offset is the path's length, less the length of its last part.
    ensures value { result ≡ length path.now - suffix_len (λ b. not (is_slash b)) path.now }
    // The result is at most the length.
    ensures within { result ≤ length path.now }
{
    let mut start = 0;
    for (i, b) in path.iter().enumerate() {
        if *b == b'/' {
            start = i + 1;
        }
    }
    start
}

/// The path, relative to a folder, of a name below it: the name without the folder, whose own name
/// has `folder` bytes, and without the slash after it.
pub(crate) fn path_relative_to(folder: usize, name: &[u8]) -> &[u8]
    ensures { result.now ≡ drop (folder + 1) name.now }
{
    match name.get(folder..) {
        Some([_, path @ ..]) => path,
        _ => &name[..0],
    }
}
