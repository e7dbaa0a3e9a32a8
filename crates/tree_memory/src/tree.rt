//! A tree of files in memory: its own calls, by which tests fill, break and read it, and those of
//! the trait `Tree`.
//! The contracts are those of `Tree` of `base_core`; the rules are in `docs/crash-safety.md`,
//! "What each call does" and "Misuses, faults and counts".
ghost use Rattle.std.specs.Prelude.{◌≡◌, ◌↔◌, [], ◌∷◌, List, Some, None, IsTrue, IsOk, IfOk, IfSome, IsErrOf, OnOk, OnErr, false, true, length, max, take, drop, if◌then◌else◌};
ghost use Rattle.std.specs.Option.{option_map, option_copied};
ghost use Rattle.base_core.specs.Calls.{IsCounted, ChangesHistory, IfObservable};
ghost use Rattle.base_core.specs.Faults.{CountsOnlyRise, CountsNewFaultWithCause, CountsNoNewFaultOrLackOfMemory, saturating_increment};
ghost use Rattle.base_core.specs.Files.{put_name};
ghost use Rattle.base_core.specs.Listed.{AreSortedAndEachBelowFolder, IsSortedListOfAllNamesInMap, IsSortedListingOfFolder};
ghost use Rattle.base_core.specs.Tree.{files_of, after_create, after_append, after_failed_append, after_sync, after_rename, after_remove, after_sync_names, unchanged_after_failed_call, IsAlwaysAllowed, HasName, CanRead, CanCreate, CanRename};
ghost use Rattle.base_core.specs.Undone.{IsAfterCrash};
ghost use Rattle.base_core.specs.declared.tree.TreeFault.TheVariants.{Memory, Disk as DiskFault};
ghost use Rattle.tree_memory.specs.Changes.{empty_state, after_put};
ghost use Rattle.tree_memory.specs.Images.{maps_newest_first, crash_map_pick_count_of, IsImageOf};
ghost use Rattle.tree_memory.specs.Kept.{CanPut};
ghost use Rattle.tree_memory.specs.Plans.{no_plan, is_next_call_to_fail, has_next_or_later_failure, plan_after_one_call};

use crate::calls::{Calls, Plan};
use crate::store::Store;
use base_core::{Disk, Name, Names, Tree, TreeFault};
use std::alloc::{AllocError, Global};

/// A tree of files in memory, with everything observable: its states, its counts, and which calls
/// are to fail.
pub struct MemoryTree {
    // The states, as a record of changes, and the current state.
    store: Store,
    // Which calls are to fail, and how many there were.
    calls: Calls,
    // The greatest length that a `read_at` asked for.
    longest: u64,
}

/// Drops the parts in one call, so that a function that gives up has one drop and not many.
impl Drop for MemoryTree {
    fn drop(self) {
        let MemoryTree {
            store: _,
            calls: _,
            longest: _,
        } = self;
    }
}

impl MemoryTree {
    ghost use Rattle.tree_memory.specs.Memory.{tree_state, history_of, counts_of, calls_of, writes_of, failure_plan_of, longest_read_of, no_faults};

    /// An empty tree, with no faults and no planned failures.
    pub fn new(alloc: Global) -> MemoryTree
        // The tree has one state so far, that without files.
        ensures history { history_of result ≡ empty_state ∷ [] }
        // No call has failed, and no failure is planned.
        ensures counts { counts_of result ≡ no_faults }
        // No call is to fail.
        ensures plan { failure_plan_of result ≡ no_plan }
        // No call was made.
        ensures calls { calls_of result ≡ 0 }
        // No call that writes was made.
        ensures writes { writes_of result ≡ 0 }
        // No `read_at` has asked for bytes.
        ensures longest { longest_read_of result ≡ 0 }
    {
        MemoryTree {
            store: Store::new(alloc),
            calls: Calls::new(alloc),
            longest: 0,
        }
    }

    /// Whether a file may be put under the name: no name becomes a folder of another.
    pub fn can_put(&self, name: &Name) -> bool
        ensures { IsTrue result ↔ CanPut name.now (tree_state self.now) }
    {
        self.store.can_put(name)
    }

    /// Puts a synced file, and syncs the names. A put is no call of `Tree` and is not counted. If
    /// out of memory, nothing changes.
    pub fn put(&mut self, name: &Name, bytes: &[u8]) -> Result<(), AllocError>
        // No name may become a folder of another.
        requires { CanPut name.now (tree_state self.old) }
        // On success one state is added: the file is new and synced, and the names are synced.
        ensures ok { OnOk result (history_of self.new
            ≡ after_put name.now bytes.now (tree_state self.old) ∷ history_of self.old) }
        // On success the name has exactly these bytes, and all other files are as before.
        ensures files { OnOk result (files_of (tree_state self.new)
            ≡ put_name (files_of (tree_state self.old)) name.now bytes.now) }
        // An error adds no state to the history.
        ensures err { OnErr result (history_of self.new ≡ history_of self.old) }
        // The counts of failed calls are unchanged.
        ensures counts { counts_of self.new ≡ counts_of self.old }
        // The planned failures are unchanged.
        ensures plan { failure_plan_of self.new ≡ failure_plan_of self.old }
        // The number of calls so far is unchanged.
        ensures calls { calls_of self.new ≡ calls_of self.old }
        // The number of calls so far that write is unchanged.
        ensures writes { writes_of self.new ≡ writes_of self.old }
        // The greatest length that a `read_at` asked for is unchanged.
        ensures longest { longest_read_of self.new ≡ longest_read_of self.old }
    {
        let bytes = Vec::from_slice(self.store.alloc, bytes)?;
        self.store.put(name, bytes)
    }

    /// The bytes of a file as read, or None exactly if the name is absent.
    pub fn file(&self, name: &Name) -> Option<&[u8]>
        ensures { option_copied result ≡ files_of (tree_state self.now) name.now }
    {
        self.store.file(name)
    }

    /// All names, in byte order.
    pub fn names(&self, alloc: Global) -> Result<Names, AllocError>
        ensures { IfOk result (IsSortedListOfAllNamesInMap (tree_state self.now).names) }
    {
        self.store.names(alloc)
    }

    /// Plans that the calls of `Tree` with these numbers fail; the next call is number 1. This
    /// replaces the earlier plan. If out of memory, nothing changes.
    pub fn fail_at(&mut self, calls: &[u64]) -> Result<(), AllocError>
        // On success the plan is this list of calls, and has no stop.
        ensures ok { OnOk result (failure_plan_of self.new
            ≡ record { listed = calls.now; stop = None }) }
        // An error leaves the earlier plan.
        ensures err { OnErr result (failure_plan_of self.new ≡ failure_plan_of self.old) }
        // The states of the tree so far are unchanged.
        ensures history { history_of self.new ≡ history_of self.old }
        // The counts are unchanged; `fallible` says whether a later call is planned to fail.
        ensures counts { counts_of self.new
            ≡ record (counts_of self.old) {
              fallible = has_next_or_later_failure
                  (failure_plan_of self.new);
            } }
        // The number of calls so far is unchanged.
        ensures calls { calls_of self.new ≡ calls_of self.old }
        // The number of calls so far that write is unchanged.
        ensures writes { writes_of self.new ≡ writes_of self.old }
        // The greatest length that a `read_at` asked for is unchanged.
        ensures longest { longest_read_of self.new ≡ longest_read_of self.old }
    {
        self.calls.plan = Plan::at(self.store.alloc, calls)?;
        Ok(())
    }

    /// Plans that each call of `Tree` after the next n calls fails; this replaces the earlier plan.
    pub fn stop_after(&mut self, n: u64)
        // The plan is this stop alone, without listed calls.
        ensures plan { failure_plan_of self.new ≡ record { listed = []; stop = Some n } }
        // The states of the tree so far are unchanged.
        ensures history { history_of self.new ≡ history_of self.old }
        // The counts are unchanged; `fallible` says that a later call is planned to fail.
        ensures counts { counts_of self.new ≡ record (counts_of self.old) { fallible = true } }
        // The number of calls so far is unchanged.
        ensures calls { calls_of self.new ≡ calls_of self.old }
        // The number of calls so far that write is unchanged.
        ensures writes { writes_of self.new ≡ writes_of self.old }
        // The greatest length that a `read_at` asked for is unchanged.
        ensures longest { longest_read_of self.new ≡ longest_read_of self.old }
    {
        self.calls.plan = Plan::after(self.store.alloc, n);
    }

    /// A new tree as after a crash: it has a map of names that a crash may leave, and all its files
    /// are synced. If `picks` returns `p`, the number `choice mod p` picks the map. 0 picks the
    /// current map. If at most 5 changes of names followed the last sync of the names, each map
    /// that a crash may leave has its number. If the picked map has a file as a folder, the new
    /// tree has the current map instead. A file that was not synced has its bytes as read if
    /// `(choice / p) mod 3` is 0, no bytes if it is 1, and as many bytes of value 255 if it is 2.
    /// The new tree has no faults and no planned failures. The tree itself is unchanged.
    pub fn pick_image(&self, alloc: Global, choice: u64) -> Result<MemoryTree, AllocError>
        // The files of the new tree are those that `choice` picks.
        ensures files { IfOk result (λ image.
            IsImageOf choice (tree_state self.now) (files_of (tree_state image))) }
        // A crash of this tree can leave the state of the new tree.
        ensures crash { IfOk result (λ image. IsAfterCrash (tree_state self.now) (tree_state
            image)) }
        // In the new tree no call has failed, and no failure is planned.
        ensures counts { IfOk result (λ image. counts_of image ≡ no_faults) }
        // No call of the new tree is to fail.
        ensures plan { IfOk result (λ image. failure_plan_of image ≡ no_plan) }
        // No call of the new tree was made.
        ensures calls { IfOk result (λ image. calls_of image ≡ 0) }
        // No call of the new tree that writes was made.
        ensures writes { IfOk result (λ image. writes_of image ≡ 0) }
        // No `read_at` of the new tree has asked for bytes.
        ensures longest { IfOk result (λ image. longest_read_of image ≡ 0) }
    {
        let store = self.store.image(alloc, choice)?;
        Ok(MemoryTree {
            store,
            calls: Calls::new(alloc),
            longest: 0,
        })
    }

    /// How many calls of `Tree` were made.
    pub fn calls(&self) -> u64
        ensures { result ≡ calls_of self.now }
    {
        self.calls.tally.calls
    }

    /// How many calls other than `size`, `read_at`, `list` and `check_target` were made.
    pub fn writes(&self) -> u64
        ensures { result ≡ writes_of self.now }
    {
        self.calls.tally.writes
    }

    /// How many calls of this tree failed.
    pub fn faults(&self) -> u64
        ensures { result ≡ (counts_of self.now).faults }
    {
        self.calls.tally.faults
    }

    /// How many calls of this tree failed because the tree was out of memory.
    pub fn wants(&self) -> u64
        ensures { result ≡ (counts_of self.now).memory_faults }
    {
        self.calls.tally.memory_faults
    }

    /// The greatest length that a `read_at` asked for, in bytes. A test sees by it that no file is
    /// read whole.
    pub fn longest_read(&self) -> u64
        ensures { result ≡ longest_read_of self.now }
    {
        self.longest
    }

    /// How many maps of names there are: the current one, and the older ones since the names were
    /// last synced.
    pub fn maps(&self) -> u64
        ensures { result ≡ length (maps_newest_first (tree_state self.now)) }
    {
        self.store.maps()
    }

    /// How many numbers pick a map of names in `pick_image`: the numbers below the result.
    pub fn picks(&self) -> u64
        ensures { result ≡ crash_map_pick_count_of (tree_state self.now) }
    {
        self.store.picks()
    }
}

impl Tree for MemoryTree {
    ghost use Rattle.tree_memory.specs.Memory.{tree_state, history_of, counts_of, calls_of, writes_of, failure_plan_of, longest_read_of, IsReadCall, IsWriteCall};
    ghost use Rattle.tree_memory.specs.WellFormedLaw.{well_formed_history};

    // The history of a tree: its states so far, the newest first.
    ghost history = { λ tree. history_of tree };

    // The counts of a tree: failed calls, misuses, calls that ran out of memory.
    ghost counts = { λ tree. counts_of tree };

    // The proof that each state of a tree so far is well formed.
    ghost whole = { λ tree. well_formed_history tree };

    // True of each source and each name: no folder of a tree in memory refuses a rename or removal.
    ghost accepts = { λ source name. Unit {0} };

    /// The length of a file in bytes, or None if the name is absent.
    fn size(&mut self, name: &Name) -> Result<Option<u64>, Disk>
        // The call adds no state to the history.
        ensures same { history_of self.new ≡ history_of self.old }
        // How the counts change; each state allows the call, so that it is no misuse.
        ensures counts { IsCounted IsAlwaysAllowed (history_of self.old) (counts_of self.old)
            (counts_of self.new) result }
        // On success the result is the length of the file under the name, or None if it is absent.
        ensures value { IfOk result (λ size.
            IfObservable (history_of self.old)
            (λ v. size ≡ option_map length (files_of v name.now))) }

        // The call fails exactly if its failure is planned.
        ensures when { IsOk result ↔ (is_next_call_to_fail (failure_plan_of self.old) ≡ false) }
        // One more call that only reads is counted; an error is counted as a fault.
        ensures call { IsReadCall self.old self.new result }
        // The greatest length that a `read_at` asked for is unchanged.
        ensures longest { longest_read_of self.new ≡ longest_read_of self.old }
    {
        // Counts the call, which each state allows; ends it if its failure is planned.
        self.calls.begin(true)?;
        match self.store.file(name) {
            None => Ok(None),
            Some(bytes) => Ok(Some(bytes.len() as u64)),
        }
    }

    /// Fills the buffer `into` with the file's bytes from the offset `at` on.
    fn read_at(&mut self, name: &Name, at: u64, into: &mut [u8]) -> Result<(), Disk>
        // The call adds no state to the history.
        ensures same { history_of self.new ≡ history_of self.old }
        // How the counts change; the call is a misuse in the states that do not allow it.
        ensures counts { IsCounted (CanRead name.now at (length into.old)) (history_of self.old)
            (counts_of self.old) (counts_of self.new) result }
        // On success the buffer has the bytes of the file from the offset on.
        ensures value { OnOk result (IfObservable (history_of self.old)
            (λ v. IfSome (files_of v name.now) (λ bytes.
            into.new ≡ take (length into.old) (drop at bytes)))) }

        // The call fails exactly if its failure is planned, or if it is a misuse.
        ensures when { IsOk result ↔ ((is_next_call_to_fail (failure_plan_of self.old) ≡ false)
            × CanRead name.now at (length into.old) (tree_state self.old)) }
        // An error leaves the buffer as it was.
        ensures unchanged_after_failed_call { OnErr result (into.new ≡ into.old) }
        // One more call that only reads is counted; an error is counted as a fault.
        ensures call { IsReadCall self.old self.new result }
        // The greatest length that a `read_at` asked for, this call included.
        ensures longest { longest_read_of self.new
            ≡ max (longest_read_of self.old) (length into.old) }
    {
        self.longest = self.longest.max(into.len() as u64);
        // Whether the file is present and long enough; otherwise the call is a misuse.
        let can = self.store.can_read(name, at, into.len());
        // Counts the call; ends it if it is a misuse, or if its failure is planned.
        self.calls.begin(can)?;
        self.store.read_at(name, at, into);
        Ok(())
    }

    /// Makes an empty file under an absent name.
    fn create(&mut self, name: &Name) -> Result<(), Disk>
        // Success adds the state with the new empty file; an error adds the same state, or none.
        ensures moves { ChangesHistory (CanCreate name.now) (after_create name.now) (after_create
            name.now)
            (history_of self.old) (history_of self.new) result }
        // How the counts change; the call is a misuse in the states that do not allow it.
        ensures counts { IsCounted (CanCreate name.now) (history_of self.old) (counts_of self.old)
            (counts_of self.new) result }

        // What is counted of the call, and why it fails: its failure is planned, it is a misuse, or
        // the tree is out of memory. If it fails, the history is unchanged.
        ensures call { IsWriteCall (CanCreate name.now) self.old self.new result }
    {
        // Whether the name is absent, and makes no name a folder of another.
        let can = self.store.can_create(name);
        // Counts the call; ends it if it is a misuse, or if its failure is planned.
        self.calls.begin_write(can)?;
        let done = self.store.create(name);
        self.calls.finish(done)
    }

    /// Adds a piece at the end of a file.
    fn append(&mut self, name: &Name, piece: &[u8]) -> Result<(), Disk>
        // Success adds the state with the piece at the file's end; an error adds a state in which
        // the file is unsynced, or none.
        ensures moves { ChangesHistory (HasName name.now) (after_append name.now piece.now)
            (after_failed_append name.now) (history_of self.old) (history_of self.new) result }
        // How the counts change; the call is a misuse in the states that do not allow it.
        ensures counts { IsCounted (HasName name.now) (history_of self.old) (counts_of self.old)
            (counts_of self.new) result }
        // One more call that writes is counted. An error has its cause, and adds no state.
        ensures call { IsWriteCall (HasName name.now) self.old self.new result }
    {
        // Whether the name is present; otherwise the call is a misuse.
        let can = self.store.has(name);
        // Counts the call; ends it if it is a misuse, or if its failure is planned.
        self.calls.begin_write(can)?;
        let done = self.store.append(name, piece);
        self.calls.finish(done)
    }

    /// Makes the bytes of a file durable.
    fn sync(&mut self, name: &Name) -> Result<(), Disk>
        // Success adds the state with the synced file; an error adds the old state again, or none.
        ensures moves { ChangesHistory (HasName name.now)
            (after_sync name.now) unchanged_after_failed_call
            (history_of self.old) (history_of self.new) result }
        // How the counts change; the call is a misuse in the states that do not allow it.
        ensures counts { IsCounted (HasName name.now) (history_of self.old) (counts_of self.old)
            (counts_of self.new) result }
        // One more call that writes is counted. An error has its cause, and adds no state.
        ensures call { IsWriteCall (HasName name.now) self.old self.new result }
    {
        // Whether the name is present; otherwise the call is a misuse.
        let can = self.store.has(name);
        // Counts the call; ends it if it is a misuse, or if its failure is planned.
        self.calls.begin_write(can)?;
        let done = self.store.sync(name);
        self.calls.finish(done)
    }

    /// Moves the file of the name `from` to the name `to`.
    fn rename(&mut self, from: &Name, to: &Name) -> Result<(), Disk>
        // Success adds the state with the file under `to`; an error adds the same state, or none.
        ensures moves { ChangesHistory (CanRename from.now to.now) (after_rename from.now to.now)
            (after_rename from.now to.now) (history_of self.old) (history_of self.new) result }
        // How the counts change; the call is a misuse in the states that do not allow it.
        ensures counts { IsCounted (CanRename from.now to.now) (history_of self.old)
            (counts_of self.old) (counts_of self.new) result }
        // One more call that writes is counted. An error has its cause, and adds no state.
        ensures call { IsWriteCall (CanRename from.now to.now) self.old self.new result }
    {
        // Whether `from` is present, and `to` makes no name a folder of another.
        let can = self.store.can_rename(from, to);
        // Counts the call; ends it if it is a misuse, or if its failure is planned.
        self.calls.begin_write(can)?;
        let done = self.store.rename(from, to);
        self.calls.finish(done)
    }

    /// Removes a name; an absent name is no fault.
    fn remove(&mut self, name: &Name) -> Result<(), Disk>
        // Success adds the state without the name; an error adds the same state, or none.
        ensures moves { ChangesHistory IsAlwaysAllowed (after_remove name.now) (after_remove
            name.now)
            (history_of self.old) (history_of self.new) result }
        // How the counts change; each state allows the call, so that it is no misuse.
        ensures counts { IsCounted IsAlwaysAllowed (history_of self.old) (counts_of self.old)
            (counts_of self.new) result }
        // One more call that writes is counted. An error has its cause, and adds no state.
        ensures call { IsWriteCall IsAlwaysAllowed self.old self.new result }
    {
        // Counts the call, which each state allows; ends it if its failure is planned.
        self.calls.begin_write(true)?;
        let done = self.store.remove(name);
        self.calls.finish(done)
    }

    /// Makes all changes of names durable.
    fn sync_names(&mut self) -> Result<(), Disk>
        // Success adds the state without older maps of names; an error adds the state before the
        // call again, or none.
        ensures moves { ChangesHistory IsAlwaysAllowed after_sync_names unchanged_after_failed_call
            (history_of self.old) (history_of self.new) result }
        // How the counts change; each state allows the call, so that it is no misuse.
        ensures counts { IsCounted IsAlwaysAllowed (history_of self.old) (counts_of self.old)
            (counts_of self.new) result }
        // One more call that writes is counted. An error has its cause, and adds no state.
        ensures call { IsWriteCall IsAlwaysAllowed self.old self.new result }
    {
        // Counts the call, which each state allows; ends it if its failure is planned.
        self.calls.begin_write(true)?;
        let done = self.store.sync_names();
        self.calls.finish(done)
    }

    /// The present names below a folder, at any depth, in byte order. Out of memory for the answer
    /// is no fault of the tree.
    fn list(&mut self, alloc: Global, folder: &Name) -> Result<Names, TreeFault>
        // The call adds no state to the history.
        ensures same { history_of self.new ≡ history_of self.old }
        // No count falls.
        ensures goes_on { CountsOnlyRise (counts_of self.old) (counts_of self.new) }
        // An I/O error is returned only if a fault was counted.
        ensures disk { IsErrOf result DiskFault
            → CountsNewFaultWithCause (counts_of self.old) (counts_of self.new) }
        // Ok is returned only if no fault was counted.
        ensures kept { OnOk result (CountsNoNewFaultOrLackOfMemory (counts_of self.old)
            (counts_of self.new)) }
        // If out of memory for the answer, no fault of the tree was counted.
        ensures memory { IsErrOf result Memory
            → CountsNoNewFaultOrLackOfMemory (counts_of self.old) (counts_of self.new) }
        // The call is no misuse.
        ensures proper { (counts_of self.new).misuses ≡ (counts_of self.old).misuses }
        // The answer has exactly the present names below the folder, in byte order.
        ensures value { IfOk result (λ names.
            IfObservable (history_of self.old) (λ v. IsSortedListingOfFolder folder.now v names)) }
        // Each element of the answer is a valid name below the folder.
        ensures order { IfOk result (λ names. AreSortedAndEachBelowFolder folder.now names) }

        // The call fails with an I/O error exactly if its failure is planned.
        ensures when { IsErrOf result DiskFault
            ↔ (is_next_call_to_fail (failure_plan_of self.old) ≡ true) }
        // The numbers of the plan are then counted from the call after this call.
        ensures plan { failure_plan_of self.new ≡ plan_after_one_call (failure_plan_of self.old) }
        // One more call was made.
        ensures calls { calls_of self.new ≡ saturating_increment (calls_of self.old) }
        // The number of calls so far that write is unchanged.
        ensures writes { writes_of self.new ≡ writes_of self.old }
        // One more fault is counted if the failure of this call is planned.
        ensures faults { (counts_of self.new).faults
            ≡ (if is_next_call_to_fail (failure_plan_of self.old) then saturating_increment
            (counts_of self.old).faults else
            (counts_of self.old).faults) }
        // No call is counted as failed for lack of memory of the tree.
        ensures memory_faults { (counts_of self.new).memory_faults
            ≡ (counts_of self.old).memory_faults }
        // The greatest length that a `read_at` asked for is unchanged.
        ensures longest { longest_read_of self.new ≡ longest_read_of self.old }
    {
        // Counts the call, which each state allows; ends it if its failure is planned.
        self.calls.begin(true)?;
        let names = self.store.list(alloc, folder)?;
        // A law for the proof, which computes nothing: each element of `names` is a name.
        names.are_names();
        Ok(names)
    }

    /// Returns Ok unless a failure is planned: no folder of a tree in memory refuses a name.
    fn check_target(&mut self, name: &Name, source: Option<&Name>) -> Result<(), Disk>
        // The call adds no state to the history.
        ensures same { history_of self.new ≡ history_of self.old }
        // How the counts change; each state allows the call, so that it is no misuse.
        ensures counts { IsCounted IsAlwaysAllowed (history_of self.old) (counts_of self.old)
            (counts_of self.new) result }

        // The call fails exactly if its failure is planned.
        ensures when { IsOk result ↔ (is_next_call_to_fail (failure_plan_of self.old) ≡ false) }
        // One more call that only reads is counted; an error is counted as a fault.
        ensures call { IsReadCall self.old self.new result }
        // The greatest length that a `read_at` asked for is unchanged.
        ensures longest { longest_read_of self.new ≡ longest_read_of self.old }
    {
        // Counts the call, which each state allows; ends it if its failure is planned.
        self.calls.begin(true)?;
        Ok(())
    }
}
