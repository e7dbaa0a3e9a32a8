//! Stores of files: the trait `Tree` with the meaning of its calls, and reads of a whole file.
//! `docs/crash-safety.md` says what each call does ("What each call does"), when a call is a
//! misuse, and what is counted ("Misuses, faults and counts").
ghost use Rattle.std.specs.Prelude.{◌≡◌, ℕ, List, Option, Some, length, take, drop, IfOk, OnOk, IfSome, IsErrOf, All};
ghost use Rattle.std.specs.Option.{option_map, option_copied};
ghost use Rattle.base_core.specs.Tree.{TreeState, files_of, after_create, after_append, after_failed_append, after_sync, after_rename, after_remove, after_sync_names, unchanged_after_failed_call, IsAlwaysAllowed, HasName, CanRead, CanCreate, CanRename, IsWellFormed};
ghost use Rattle.base_core.specs.Faults.{Counts, CountsOnlyRise, CountsNewFaultWithCause, CountsNoNewFaultOrLackOfMemory};
ghost use Rattle.base_core.specs.Calls.{IsCounted, ChangesHistory, IfObservable};
ghost use Rattle.base_core.specs.Listed.{AreSortedAndEachBelowFolder, IsSortedListingOfFolder};
ghost use Rattle.base_core.specs.Read.{AppendsReadBytes, OnlyReads, bytes_in};
ghost use Rattle.base_core.specs.declared.tree.TreeFault.TheVariants.{Memory, Disk as DiskFault};

use crate::name::{Name, Names};
use std::alloc::{AllocError, Global};
use thiserror::Error;

/// An I/O error of a tree.
#[derive(Clone, Copy, Debug, PartialEq, Eq, Error)]
#[error("the tree failed")]
pub struct Disk;

/// Why a call that reads a tree into memory fails.
#[derive(Clone, Copy, Debug, PartialEq, Eq, Error)]
pub enum TreeFault {
    /// The tree failed.
    #[error("the tree failed")]
    Disk,
    /// Out of memory.
    #[error("out of memory")]
    Memory,
}

impl From<Disk> for TreeFault {
    // Contracts know of this conversion that its result is `TreeFault::Disk`.
    ghost from_gives = { λ _ fault. fault ≡ DiskFault };

    // An I/O error as the error of a call that reads the tree into memory.
    fn from(_: Disk) -> TreeFault {
        TreeFault::Disk
    }
}

impl From<AllocError> for TreeFault {
    // Contracts know of this conversion that its result is `TreeFault::Memory`.
    ghost from_gives = { λ _ fault. fault ≡ Memory };

    // Out of memory as the error of a call that reads the tree into memory.
    fn from(_: AllocError) -> TreeFault {
        TreeFault::Memory
    }
}

/// Files under names: a folder of the host, or a tree in memory. A call that would make one name a
/// folder of another is a misuse. Each call returns `Disk` only if the tree's count of faults rose
/// in it, even if its history is not observable.
///
/// In the clauses of the calls `same` says that the history is unchanged, `moves` which states are
/// added, `counts` how the counts change, and `value` what is returned if the history is
/// observable.
pub trait Tree {
    /// The states of the tree so far, the newest first. The list is empty if the tree is not
    /// observable.
    ghost history: { Self → List TreeState };

    /// How many calls of the tree failed, and for which reasons.
    ghost counts: { Self → Counts };

    /// The tree has answered that a file can be renamed to the name from the given source, or,
    /// without a source, that the name can be removed. The statement has no state as an argument.
    /// Only an Ok of `check_target` gives it: code for any tree that relies on it must have called
    /// `check_target`.
    ghost accepts: { Option (List ℕ) → List ℕ → Type 0 };

    /// The file's length in bytes, or None exactly if the name is absent.
    fn size(&mut self, name: &Name) -> Result<Option<u64>, Disk>
        // The history is unchanged.
        ensures same { history self.new ≡ history self.old }
        // How the counts change; each state allows the call, so that it is no misuse.
        ensures counts { IsCounted IsAlwaysAllowed (history self.old) (counts self.old)
            (counts self.new) result }
        // On success the result is the length of the file under the name, or None if it is absent.
        ensures value { IfOk result (λ size. IfObservable (history self.old) (λ v.
            size ≡ option_map length (files_of v name.now))) };

    /// Fills the buffer `into` with the file's bytes from the offset `at` on. An absent name, or a
    /// read past the file's end, is a misuse, and a fault.
    fn read_at(&mut self, name: &Name, at: u64, into: &mut [u8]) -> Result<(), Disk>
        // The history is unchanged.
        ensures same { history self.new ≡ history self.old }
        // How the counts change; the call is a misuse if the state does not allow this read.
        ensures counts { IsCounted (CanRead name.now at (length into.old)) (history self.old)
            (counts self.old) (counts self.new) result }
        // On success the buffer has the bytes of the file from the offset on.
        ensures value { OnOk result (IfObservable (history self.old) (λ v.
            IfSome (files_of v name.now) (λ bytes.
            into.new ≡ take (length into.old) (drop at bytes)))) };

    /// Makes an empty file, which is not synced. A name that is present, or that would make one
    /// name a folder of another, is a misuse, and a fault.
    fn create(&mut self, name: &Name) -> Result<(), Disk>
        // Success adds the state with the new empty file; an error adds the same state, or none.
        ensures moves { ChangesHistory (CanCreate name.now) (after_create name.now) (after_create
            name.now)
            (history self.old) (history self.new) result }
        // How the counts change; the call is a misuse if no file can be made under the name.
        ensures counts { IsCounted (CanCreate name.now) (history self.old)
            (counts self.old) (counts self.new) result };

    /// Adds the bytes `piece` at the file's end. After the call the file is unsynced; after a
    /// failed call it may be unsynced. `Disk` reports an I/O error of the tree. An absent name is a
    /// misuse, and a fault.
    fn append(&mut self, name: &Name, piece: &[u8]) -> Result<(), Disk>
        // Success adds the state with these bytes at the file's end; an error adds a state in which
        // the file is unsynced, or none.
        ensures moves { ChangesHistory (HasName name.now) (after_append name.now piece.now)
            (after_failed_append name.now)
            (history self.old) (history self.new) result }
        // How the counts change; the call is a misuse if the name is absent.
        ensures counts { IsCounted (HasName name.now) (history self.old)
            (counts self.old) (counts self.new) result };

    /// File fsync: no later crash undoes what was written to the file before this call. An absent
    /// name is a misuse, and a fault.
    fn sync(&mut self, name: &Name) -> Result<(), Disk>
        // Success adds the state with the synced file; an error adds the old state again, or none.
        ensures moves { ChangesHistory (HasName name.now)
            (after_sync name.now) unchanged_after_failed_call
            (history self.old) (history self.new) result }
        // How the counts change; the call is a misuse if the name is absent.
        ensures counts { IsCounted (HasName name.now) (history self.old)
            (counts self.old) (counts self.new) result };

    /// Moves the file of `from` to `to` in one step: `from` is absent then, and the file that `to`
    /// led to is gone. An absent `from`, the same name twice, or a `to` that would make one name a
    /// folder of another is a misuse, and a fault.
    fn rename(&mut self, from: &Name, to: &Name) -> Result<(), Disk>
        // Success adds the state with the file under `to`; an error adds the same state, or none.
        ensures moves { ChangesHistory (CanRename from.now to.now) (after_rename from.now to.now)
            (after_rename from.now to.now) (history self.old) (history self.new) result }
        // How the counts change; the call is a misuse if the state does not allow this rename.
        ensures counts { IsCounted (CanRename from.now to.now) (history self.old)
            (counts self.old) (counts self.new) result };

    /// Removes a name. An absent name is no fault, and nothing changes.
    fn remove(&mut self, name: &Name) -> Result<(), Disk>
        // Success adds the state without the name; an error adds the same state, or none.
        ensures moves { ChangesHistory IsAlwaysAllowed (after_remove name.now) (after_remove
            name.now)
            (history self.old) (history self.new) result }
        // How the counts change; each state allows the call, so that it is no misuse.
        ensures counts { IsCounted IsAlwaysAllowed (history self.old) (counts self.old)
            (counts self.new) result };

    /// Directory fsync: no later crash undoes a change of names made before this call.
    fn sync_names(&mut self) -> Result<(), Disk>
        // Success adds the state without older maps of names; an error adds the old state again, or
        // none.
        ensures moves { ChangesHistory IsAlwaysAllowed after_sync_names unchanged_after_failed_call (history
            self.old)
            (history self.new) result }
        // How the counts change; each state allows the call, so that it is no misuse.
        ensures counts { IsCounted IsAlwaysAllowed (history self.old) (counts self.old)
            (counts self.new) result };

    /// All names below a folder, at any depth, in byte order, each once, even if the history is not
    /// observable. Out of memory is no fault of the tree.
    fn list(&mut self, alloc: Global, folder: &Name) -> Result<Names, TreeFault>
        // The history is unchanged.
        ensures same { history self.new ≡ history self.old }
        // No count falls.
        ensures goes_on { CountsOnlyRise (counts self.old) (counts self.new) }
        // An I/O error is returned only if a fault with its cause was counted.
        ensures disk { IsErrOf result DiskFault
            → CountsNewFaultWithCause (counts self.old) (counts self.new) }
        // Ok is returned only if no fault was counted.
        ensures kept { OnOk result (CountsNoNewFaultOrLackOfMemory (counts self.old)
            (counts self.new)) }
        // The error "out of memory" is returned only if no fault was counted.
        ensures memory { IsErrOf result Memory
            → CountsNoNewFaultOrLackOfMemory (counts self.old) (counts self.new) }
        // The call is no misuse: each state allows it.
        ensures proper { (counts self.new).misuses ≡ (counts self.old).misuses }
        // The result has exactly the present names below the folder, if the history is observable.
        ensures value { IfOk result (λ names.
            IfObservable (history self.old) (λ v. IsSortedListingOfFolder folder.now v names)) }
        // Even if it is not observable, the result has valid names below the folder, in byte order.
        ensures order { IfOk result (λ names. AreSortedAndEachBelowFolder folder.now names) };

    /// Asks, before a change is committed, whether the tree could later rename a file from the
    /// source to the name, or, without a source, remove the name. The source need not exist yet. An
    /// error says that the tree can never do so. No call is a misuse: conflicts with other files
    /// are not checked here. Missing folders may be made, since an empty folder is no part of a
    /// state.
    fn check_target(&mut self, name: &Name, source: Option<&Name>) -> Result<(), Disk>
        // The history is unchanged.
        ensures same { history self.new ≡ history self.old }
        // How the counts change; each state allows the call, so that it is no misuse.
        ensures counts { IsCounted IsAlwaysAllowed (history self.old) (counts self.old)
            (counts self.new) result }
        // Ok is returned only if the tree accepts a rename from the source to the name, or, without
        // a source, a removal of the name.
        ensures accepted { OnOk result (accepts (option_copied source.entry) name.now) };

    /// The proof that each state of the history is well formed: its names are valid, finitely many,
    /// none is a folder of another, and each leads to a file that was made, of fewer than 2^64
    /// bytes.
    ghost whole: { (tree : Self) → All IsWellFormed (history tree) };
}

/// The whole file, or None exactly if the name is absent. The tree is unchanged, whatever is
/// returned.
///
/// # Errors
///
/// `Disk` if the tree failed, `Memory` if out of memory.
pub fn read_all<T: Tree>(
    alloc: Global,
    tree: &mut T,
    name: &Name,
) -> Result<Option<Vec<u8>>, TreeFault>
    // On Ok, if the tree is observable, the result has the file's bytes, or None if it is absent.
    ensures answer { IfOk result (λ found. IfObservable (T.history tree.old) (λ v.
        bytes_in found ≡ files_of v name.now)) }
    // The tree is only read: no file changes, no I/O error is hidden, and no call is a misuse.
    ensures tree { OnlyReads TreeFault.Disk (T.history tree.old) (T.history tree.new)
        (T.counts tree.old) (T.counts tree.new) result }
{
    let Some(size) = tree.size(name)? else {
        return Ok(None);
    };
    let mut bytes = Vec::with_capacity(alloc, size as usize)?;
    append_file_to(tree, name, size, &mut bytes)?;
    Ok(Some(bytes))
}

/// How many bytes one call of `read_at` reads at most: 128 KiB. The buffer is filled with zeros
/// first. With this limit, the zeros are still in the processor's cache when the file's bytes
/// replace them. Any number above 0 would be correct.
const LONGEST_READ: u64 = 131_072;

/// Appends a whole file, which has `size` bytes, to `bytes`. The tree is unchanged, whatever is
/// returned. No memory is allocated if `bytes` has room for the file.
///
/// # Errors
///
/// `Disk` if the tree failed, `Memory` if out of memory; then a part of the file may have been
/// appended.
pub fn append_file_to<T: Tree>(
    tree: &mut T,
    name: &Name,
    size: u64,
    bytes: &mut Vec<u8>,
) -> Result<(), TreeFault>
    // If the tree is observable, the file has this length.
    requires { IfObservable (T.history tree.old) (λ v.
        Some size ≡ option_map length (files_of v name.now)) }
    // On Ok, the bytes of the whole file are added at the end of `bytes`.
    ensures added { OnOk result (AppendsReadBytes (T.history tree.old) name.now 0 size
        bytes.old.items bytes.new.items) }
    // The tree is only read: no file changes, no I/O error is hidden, and no call is a misuse.
    ensures tree { OnlyReads TreeFault.Disk (T.history tree.old) (T.history tree.new)
        (T.counts tree.old) (T.counts tree.new) result }
{
    let mut at = 0;
    while size - at > LONGEST_READ {
        read_some(tree, name, at, LONGEST_READ, bytes)?;
        at += LONGEST_READ;
    }
    // An empty file is read too: it exists, and can be opened.
    read_some(tree, name, at, size - at, bytes)?;
    Ok(())
}

/// Appends `len` bytes of a file, from the offset `at` on, to `bytes`, by one call of `read_at`.
fn read_some<T: Tree>(
    tree: &mut T,
    name: &Name,
    at: u64,
    len: u64,
    bytes: &mut Vec<u8>,
) -> Result<(), TreeFault>
    // If the tree is observable, the file exists and has these bytes.
    requires { IfObservable (T.history tree.old) (CanRead name.now at len) }
    // On Ok, these bytes of the file are added at the end of `bytes`.
    ensures added { OnOk result (AppendsReadBytes (T.history tree.old) name.now at len
        bytes.old.items bytes.new.items) }
    // The tree is only read: no file changes, no I/O error is hidden, and no call is a misuse.
    ensures tree { OnlyReads TreeFault.Disk (T.history tree.old) (T.history tree.new)
        (T.counts tree.old) (T.counts tree.new) result }
{
    // The room for the read bytes in `bytes`: from `start` to `end`.
    let start = bytes.len();
    let Some(end) = start.checked_add(len as usize) else {
        return Err(TreeFault::Memory);
    };
    bytes.resize(end, 0)?;
    tree.read_at(name, at, &mut bytes[start..])?;
    Ok(())
}
