//! What an entry says of a file's bytes, and a comparison of a file of a tree with two entries. The
//! rules are in `docs/commands.md`, "What a change does with files", part "Configuration files",
//! the table.

ghost use Rattle.std.specs.Prelude.{◌≡◌, ℕ, List, length, Option, Some, IfOk};
ghost use Rattle.std.specs.Option.{option_map};
ghost use Rattle.base_core.specs.Calls.{IfObservable};
ghost use Rattle.base_core.specs.Read.{OnlyReads};
ghost use Rattle.base_core.specs.Tree.{files_of};
ghost use Rattle.file_guard.specs.Listed.{comparison_of_bytes, comparison_of_found_file, DescribesEntry};
ghost use Rattle.pkg_core.specs.adb_schema.Views.{file_value};
ghost use Rattle.adb_view.specs.Plain.{Plain};
ghost use Rattle.file_guard.specs.AsListed.{are_sizes_hashes_targets_equal};

use crate::watch::Watch;
use base_core::{Disk, Name, Tree};
use pkg_core::{FileInfo, PIECE_LEN};

/// How the bytes of a file compare with two entries, a new and an old one.
#[derive(Clone, Copy, Debug, PartialEq, Eq)]
pub struct Comparison {
    /// Whether the bytes of the file are as the new entry lists them.
    pub as_new: bool,
    /// Whether the bytes of the file are as the old entry lists them.
    pub as_old: bool,
}

/// Compares the file under a name with two entries, `new` and `old`. An entry may be absent: then
/// no bytes are as that entry lists them. Returns None exactly if there is no file under the name.
/// The file is read once, in pieces of 65,536 bytes, and the tree is unchanged, whatever is
/// returned. If contracts cannot speak of the tree's files, as of the host's, the answer is correct
/// for some bytes that the file may have, or for its absence.
///
/// # Errors
///
/// `Disk` if the tree failed.
pub fn compare_file<T: Tree>(
    tree: &mut T,
    name: &Name,
    new: Option<ListedFile<'_>>,
    old: Option<ListedFile<'_>>,
) -> Result<Option<Comparison>, Disk>
    // For every tree: the answer is correct for some bytes that the file may have, or for its
    // absence (`file`).
    ensures found { IfOk result (λ answer. (file : Option (List ℕ))
        × IfObservable (T.history tree.old) (λ v. file ≡ files_of v name.now)
        × (answer ≡ comparison_of_found_file new.entry old.entry file)) }
    // If the tree's files are observable, the answer is correct for the file that the tree has
    // under the name.
    ensures answer { IfOk result (λ found. IfObservable (T.history tree.old) (λ v.
        found ≡ comparison_of_found_file new.entry old.entry (files_of v name.now))) }
    // The tree is only read: no file changes, no I/O error is hidden, and no call is a misuse.
    ensures tree { OnlyReads (record {}) (T.history tree.old) (T.history tree.new)
        (T.counts tree.old) (T.counts tree.new) result }
{
    let mut piece = [0; PIECE_LEN];
    compare_file_in(tree, name, new, old, &mut piece)
}

/// Compares as `compare_file` does, but reads into a piece that the caller lends, so that many
/// files can share one piece of memory. The bytes in the piece before the call do not matter.
///
/// # Errors
///
/// `Disk` if the tree failed.
pub fn compare_file_in<T: Tree>(
    tree: &mut T,
    name: &Name,
    new: Option<ListedFile<'_>>,
    old: Option<ListedFile<'_>>,
    piece: &mut [u8; PIECE_LEN],
) -> Result<Option<Comparison>, Disk>
    // For every tree: the answer is correct for some bytes that the file may have, or for its
    // absence (`file`).
    ensures found { IfOk result (λ answer. (file : Option (List ℕ))
        × IfObservable (T.history tree.old) (λ v. file ≡ files_of v name.now)
        × (answer ≡ comparison_of_found_file new.entry old.entry file)) }
    // If the tree's files are observable, the answer is correct for the file that the tree has
    // under the name.
    ensures answer { IfOk result (λ found. IfObservable (T.history tree.old) (λ v.
        found ≡ comparison_of_found_file new.entry old.entry (files_of v name.now))) }
    // The tree is only read: no file changes, no I/O error is hidden, and no call is a misuse.
    ensures tree { OnlyReads (record {}) (T.history tree.old) (T.history tree.new)
        (T.counts tree.old) (T.counts tree.new) result }
{
    let Some(size) = tree.size(name)? else {
        return Ok(None);
    };
    let comparison = compare_present(tree, name, size, new, old, piece)?;
    Ok(Some(comparison))
}

/// Compares a present file, which has this many bytes, with two entries.
fn compare_present<T: Tree>(
    tree: &mut T,
    name: &Name,
    size: u64,
    new: Option<ListedFile<'_>>,
    old: Option<ListedFile<'_>>,
    piece: &mut [u8; PIECE_LEN],
) -> Result<Comparison, Disk>
    // If the tree is observable, it has a file of this length under the name.
    requires { IfObservable (T.history tree.old) (λ v.
        Some size ≡ option_map length (files_of v name.now)) }
    // On Ok, the result compares some bytes, the file's if the tree is observable, with the
    // entries.
    ensures found { IfOk result (λ comparison. (bytes : List ℕ)
        × IfObservable (T.history tree.old) (λ v. Some bytes ≡ files_of v name.now)
        × (comparison ≡ comparison_of_bytes new.entry old.entry bytes)) }
    // The tree is only read: no file changes, no I/O error is hidden, and no call is a misuse.
    ensures tree { OnlyReads (record {}) (T.history tree.old) (T.history tree.new)
        (T.counts tree.old) (T.counts tree.new) result }
{
    // What the bytes that are not read yet have to be, by the new entry and by the old one.
    let mut for_new = Watch::new(new);
    let mut for_old = Watch::new(old);
    let mut at = 0;
    while at < size {
        let len = (size - at).min(PIECE_LEN as u64);
        let bytes = &mut piece[..len as usize];
        // Each piece is read once, and compared with both entries.
        tree.read_at(name, at, bytes)?;
        for_new = for_new.take(bytes);
        for_old = for_old.take(bytes);
        at += len;
    }
    Ok(Comparison {
        as_new: for_new.has_listed_bytes(),
        as_old: for_old.has_listed_bytes(),
    })
}

/// What an entry of a file says of the bytes of this file.
#[derive(Clone, Copy)]
pub struct ListedFile<'a> {
    /// How many bytes the file has; 0 if the entry gives no size.
    pub size: u64,
    /// The digest of the bytes of the file; its length selects the function. Empty if the entry
    /// gives no digest.
    pub hash: &'a [u8],
    /// For a link, the two bytes `00 a0` and then the text of the link; empty for any other file.
    pub target: &'a [u8],
}

impl<'a> ListedFile<'a> {
    /// Whether two entries give the same size, the same digest and the same target.
    #[tactic(auto, unfolding(crate::specs::AsListed::are_sizes_hashes_targets_equal))]
    pub fn agrees(&self, other: &ListedFile<'_>) -> bool
        ensures { (a b : Plain) → DescribesEntry self.now a → DescribesEntry other.now b
            → result ≡ are_sizes_hashes_targets_equal a b }
    {
        self.size == other.size && self.hash == other.hash && self.target == other.target
    }
}

/// What the entry of a file says of the bytes of this file.
pub fn listed_file<'a>(file: &FileInfo<'a>) -> ListedFile<'a>
    ensures { DescribesEntry result (file_value file.now) }
{
    ListedFile {
        size: file.size(),
        hash: file.hashes(),
        target: file.target(),
    }
}
