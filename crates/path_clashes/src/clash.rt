//! `first_clash`, which finds the first clash of a change, given the paths that it writes and which
//! names it releases. `plan` of `own_core` calls it.
//! The rule is in `docs/commands.md`, "What a change does with files", test 2: "No name may be a
//! folder of another one afterwards", and the first pair in byte order is reported.

ghost use Rattle.std.specs.Prelude.{◌≡◌, ◌<◌, ◌≤◌, ℕ, List, true, IfOk, All, length, map, option_map, take, Bool, Option, IsSome};
ghost use Rattle.std.specs.List.Sorted.{IsSorted};
ghost use Rattle.adb_fields.specs.JoinedPath.{joined_path};
ghost use Rattle.base_core.specs.Calls.{IfObservable};
ghost use Rattle.base_core.specs.Files.{IsFolderOf, Files, HasNoFileAsFolder, NameMap};
ghost use Rattle.base_core.specs.Name.{IsName};
ghost use Rattle.base_core.specs.Read.{OnlyReads};
ghost use Rattle.base_core.specs.Tree.{files_of};
ghost use Rattle.base_core.specs.ByteOrder.{bytes_cmp};
ghost use Rattle.path_clashes.specs.Clash.{is_pair_before_by_first_then_second_name, HasNoClash, NameChange, NamePair, is_present_after_change};
ghost use Rattle.path_clashes.specs.ClashSeen.{clash_seen};
ghost use Rattle.path_clashes.specs.FirstClash.{IsFirstClashOrNone, IsFirstClashOverSomeFiles};
ghost use Rattle.path_clashes.specs.NearName.{IsClashNear, MayBeClashNear, earlier_pair};
ghost use Rattle.path_clashes.specs.WrittenPaths.{name_change_of_paths, is_one_of_paths};

use crate::near::{first_below, first_folder};
use adb_fields::FilePath;
use base_core::{Name, Tree, TreeFault};
use std::alloc::{AllocError, Global};

/// A clash: two names after a change, of which the first would be a folder of the second.
#[derive(Drop)]
pub struct Clash {
    /// The name that would be a folder of the other name.
    pub path: Name,
    /// The name that would be below the first one.
    pub other: Name,
}

/// Whether the first clash precedes the second: in the byte order of their first names, or, if
/// these are equal, in that of their second names.
fn comes_before(one: &Clash, other: &Clash) -> bool
    ensures { result ≡ is_pair_before_by_first_then_second_name (clash_seen one.now)
        (clash_seen other.now) }
{
    let by_path = one.path.as_bytes().cmp(other.path.as_bytes());
    let by_other = one.other.as_bytes().cmp(other.other.as_bytes());
    by_path.then(by_other).is_lt()
}

/// The earlier of two optional clashes. If one of them is absent, it is the other one.
fn first_of(one: Option<Clash>, other: Option<Clash>) -> Option<Clash>
    // The result is the earlier of the two clashes.
    ensures { option_map clash_seen result
        ≡ earlier_pair (option_map clash_seen one) (option_map clash_seen other) }
{
    let Some(one) = one else {
        return other;
    };
    let Some(other) = other else {
        return Some(one);
    };
    if comes_before(&other, &one) {
        Some(other)
    } else {
        Some(one)
    }
}

/// The bytes of a path: its folder and its name, joined by `/`, or the name alone if the folder is
/// empty.
///
/// # Errors
///
/// The program is out of memory.
pub fn path_bytes(alloc: Global, path: &FilePath<'_>) -> Result<Vec<u8>, AllocError>
    ensures { IfOk result (λ bytes. bytes.items ≡ joined_path path.now) }
{
    let mut bytes = Vec::new(alloc);
    if !path.folder.is_empty() {
        bytes.extend_from_slice(path.folder)?;
        bytes.push(b'/')?;
    }
    bytes.extend_from_slice(path.name)?;
    Ok(bytes)
}

/// The length of the longest common prefix of two texts.
fn common_len(one: &[u8], other: &[u8]) -> usize
    // The result is at most the length of the first text.
    ensures one { result ≤ length one.now }
    // The result is at most the length of the second text.
    ensures other { result ≤ length other.now }
    // The first bytes of both texts, as many as the result says, are equal.
    ensures same { take result one.now ≡ take result other.now }
    // A folder above both texts is shorter than their common prefix, since this also has the `/`
    // after the folder.
    ensures folders { (folder : List ℕ) → IsFolderOf folder one.now
        → IsFolderOf folder other.now → length folder < result }
{
    let mut len = 0;
    while len < one.len() && len < other.len() && one[len] == other[len] {
        len += 1;
    }
    len
}

/// The first clash of one written path, `bytes`, with a folder above it or a name below it.
/// `written` are all written paths, and `before` is the one before this path, or empty. Folders
/// above both were searched with `before` and are skipped; if both are equal, nothing is searched.
fn clash_near<T: Tree, G: IsReleased>(
    alloc: Global,
    tree: &mut T,
    written: &[FilePath<'_>],
    let_go: &G,
    before: &[u8],
    bytes: &[u8],
) -> Result<Option<Clash>, TreeFault>
    // The written paths are in byte order.
    requires sorted { IsSorted bytes_cmp (map joined_path written.now) }
    // Each written path is a name of a tree.
    requires names { All IsName (map joined_path written.now) }
    // `bytes` is one of the written paths.
    requires written { is_one_of_paths written.now bytes.now ≡ true }
    // If the tree is observable, the result is the first clash near this path over the tree's
    // files.
    ensures near { IfOk result (λ found. IfObservable (T.history tree.old) (λ v.
        IsClashNear (name_change_of_paths written.now (G.does_release let_go.now)) (files_of v)
        before.now bytes.now (option_map clash_seen found))) }
    // Over any tree, even one that is not observable, the result is a clash over some files. No
    // clash of the written names alone with a folder above this path precedes it.
    ensures may { IfOk result (λ found. MayBeClashNear
        (name_change_of_paths written.now (G.does_release let_go.now))
        before.now bytes.now (option_map clash_seen found)) }
    // The tree is only read: no file changes, no I/O error is hidden, and no call is a misuse.
    ensures tree { OnlyReads TreeFault.Disk (T.history tree.old) (T.history tree.new)
        (T.counts tree.old) (T.counts tree.new) result }
{
    // The path is the same as the one before it, with which all its clashes were searched.
    if before == bytes {
        return Ok(None);
    }
    let name = Name::of(alloc, bytes)?;
    // A folder of at least this length is not above `before`, so it was not searched yet.
    let len = common_len(before, bytes);
    if let Some(path) = first_folder(alloc, tree, written, let_go, bytes, len)? {
        return Ok(Some(Clash { path, other: name }));
    }
    match first_below(alloc, tree, let_go, &name)? {
        Some(other) => Ok(Some(Clash { path: name, other })),
        None => Ok(None),
    }
}

/// The first clash of a change that writes the paths `written`, or None if there is none. `let_go`
/// says which names the change releases. The paths are in byte order, and may be repeated.
///
/// The tree is asked for the names below each path, and at most once for each folder above them.
/// So the calls grow with the paths, and not with the files of the tree.
///
/// # Errors
///
/// `Disk` if a call on the tree failed, `Memory` if the program is out of memory.
pub fn first_clash<T: Tree, G: IsReleased>(
    alloc: Global,
    tree: &mut T,
    written: &[FilePath<'_>],
    let_go: &G,
) -> Result<Option<Clash>, TreeFault>
    // The written paths are in byte order.
    requires sorted { IsSorted bytes_cmp (map joined_path written.now) }
    // Each written path is a name of a tree.
    requires names { All IsName (map joined_path written.now) }
    // If the tree is observable, the result is the first clash over the tree's files, or None.
    ensures first { IfOk result (λ found. IfObservable (T.history tree.old) (λ v.
        IsFirstClashOrNone (name_change_of_paths written.now (G.does_release let_go.now))
        (files_of v)
        (option_map clash_seen found))) }
    // Over any tree, even one that is not observable, the result is the first clash over some
    // files, or None.
    ensures may { IfOk result (λ found. IsFirstClashOverSomeFiles
        (name_change_of_paths written.now (G.does_release let_go.now))
        (option_map clash_seen found)) }
    // The tree is only read: no file changes, no I/O error is hidden, and no call is a misuse.
    ensures tree { OnlyReads TreeFault.Disk (T.history tree.old) (T.history tree.new)
        (T.counts tree.old) (T.counts tree.new) result }
{
    let mut first = None;
    let mut before = Vec::new(alloc);
    for path in written {
        let bytes = path_bytes(alloc, path)?;
        let found = clash_near(alloc, tree, written, let_go, &before, &bytes)?;
        first = first_of(first, found);
        before = bytes;
    }
    Ok(first)
}

/// Which names a change releases, that is, under which names it removes the file.
pub trait IsReleased {
    // The test as a definition for contracts: whether the change releases a name.
    ghost does_release: { Self → List ℕ → Bool };

    /// Whether the change releases this name: the file under it is removed.
    fn does_release(&self, name: &[u8]) -> bool
        ensures { result ≡ Self.does_release self.now name.now };
}

/// A law: if a change has no clash, no name that is present after the change is a folder of another
/// one. So a file system can have the files after the change.
pub fn files_without_a_clash_have_no_file_as_folder()
    // This holds of files `after` that have only names which are present after the change.
    ensures files { (change : NameChange) (files after : Files) → HasNoFileAsFolder files
        → HasNoClash change files
        → ((name : List ℕ) → IsSome (after name) → is_present_after_change change files name ≡ true)
        → HasNoFileAsFolder after }
    // The same holds of a map of names.
    ensures names { (change : NameChange) (files : Files) (after : NameMap)
        → HasNoFileAsFolder files
        → HasNoClash change files
        → ((name : List ℕ) → IsSome (after name) → is_present_after_change change files name ≡ true)
        → HasNoFileAsFolder after }
{}

/// A law: two results of a search for the first clash, for the same change and files, are equal. So
/// the refusal is determined by the change and the files.
pub fn a_change_has_one_first_clash()
    ensures { (change : NameChange) (files : Files) (one other : Option NamePair)
        → IsFirstClashOrNone change files one → IsFirstClashOrNone change files other → one
        ≡ other }
{}

/// A law: two changes that agree on each name have the same first clash. So the names of a change
/// may be given by a list or by a test.
pub fn changes_that_agree_clash_alike()
    ensures { (one other : NameChange) (files : Files) (found : Option NamePair)
        → ((name : List ℕ) → one.counts_as_written name ≡ other.counts_as_written name)
        → ((name : List ℕ) → one.does_release name ≡ other.does_release name)
        → IsFirstClashOrNone one files found → IsFirstClashOrNone other files found }
{}
