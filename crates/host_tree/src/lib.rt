//! The folder that the program runs in, as a `Tree`: each call is made on the host (by
//! `host_root`), and the calls that fail are counted.
//!
//! This crate is trusted: no contract can say what a host does. Read it against the table in
//! `docs/crash-safety.md`, "What the host's tree does".
#![tactic(auto)]

ghost use Rattle.std.specs.Prelude.{◌≡◌, ◌≤◌, [], OnOk, OnErr, true};
ghost use Rattle.base_core.specs.Faults.{saturating_increment};
ghost use Rattle.host_tree.specs.Host.{host_counts};

mod earlier;
mod listing;

use base_core::{Disk, Name, Names, Tree, TreeFault};
use earlier::note_earlier_changes;
use host_root::{Failure, Host, HostFault, Lock, Root};
use listing::list_below;
use std::alloc::Global;

/// The folder that the program runs in. Its files are not observable; each call that returns a
/// fault counts it.
///
/// A symbolic link at a name, or in place of a folder above the name, is never followed and is a
/// fault. So is anything else at a name that is neither a regular file nor a folder.
#[derive(Drop)]
pub struct HostTree<'a, R: Host> {
    /// Where memory is taken.
    alloc: Global,
    /// The folder that the program runs in, with the files that stay open between calls.
    root: Root<'a, R>,
    /// The number of calls that failed.
    faults: u64,
    /// The first failure, for the line after `ERROR: the tree failed`.
    failure: Option<Failure>,
    /// Whether the folders in which an earlier run may have changed names without a sync are noted,
    /// so that the next sync of the names syncs them.
    has_noted_earlier_changes: bool,
    /// Whether there was an executable file or an empty folder below the folder that was listed
    /// last with at least one name. A listing does not show this, so `main` prints a warning.
    has_omitted: bool,
}

impl<'a, R: Host> HostTree<'a, R> {
    /// The tree of the folder that the program runs in. The host is called at the first call on a
    /// file, and then takes this lock.
    pub fn new(rt: &'a R, alloc: Global, lock: Lock) -> HostTree<'a, R>
        // No fault is counted yet.
        ensures { result.faults ≡ 0 }
    {
        HostTree {
            alloc,
            root: Root::new(rt, alloc, lock),
            faults: 0,
            failure: None,
            has_noted_earlier_changes: false,
            has_omitted: false,
        }
    }

    /// The first failure, if there is one (`docs/commands.md`, "A fault of the tree").
    pub fn failure(&self) -> Option<&Failure> {
        self.failure.as_ref()
    }

    /// The name that may lead to its new file although the run failed: a file was renamed to it,
    /// and the names were not synced since.
    pub fn maybe_renamed_name(&self) -> Option<&[u8]> {
        self.root.maybe_renamed_name()
    }

    /// Whether a change is committed and not completed: the next command that recovers completes
    /// it.
    pub fn has_unfinished_change(&self) -> bool {
        self.root.has_unfinished_change()
    }

    /// Whether the last listing with at least one name, since the last call of this function, left
    /// out that a file is executable or that a folder is empty (`docs/commands.md`, "Warnings").
    pub fn take_omitted(&mut self) -> bool
        // No fault is counted.
        ensures faults { self.new.faults ≡ self.old.faults }
    {
        let taken = self.has_omitted;
        self.has_omitted = false;
        taken
    }

    /// Releases the lock on the root. No call follows this one.
    pub fn leave(&mut self)
        // No fault is counted.
        ensures faults { self.new.faults ≡ self.old.faults }
    {
        self.root.leave();
    }

    /// Syncs the folders in which names changed. The first call also syncs the folders in which an
    /// earlier run may have changed names without syncing them.
    fn write_names_through(&mut self) -> Result<(), HostFault>
        // No fault is counted.
        ensures faults { self.new.faults ≡ self.old.faults }
    {
        if !self.has_noted_earlier_changes {
            note_earlier_changes(&mut self.root, self.alloc)?;
            self.has_noted_earlier_changes = true;
        }
        self.root.write_names_through()
    }

    /// Counts a failed call, and remembers the first failure: the name of the call, its path, and
    /// the second path of a rename (`target`).
    fn note_failure(
        &mut self,
        call: &'static str,
        path: &[u8],
        target: &[u8],
        fault: HostFault,
    ) -> Disk
        // One more fault is counted, up to 2^64 - 1.
        ensures faults { self.new.faults ≡ saturating_increment self.old.faults }
        // The count of faults does not fall.
        ensures later { self.old.faults ≤ self.new.faults }
    {
        if self.failure.is_none() {
            self.failure = Some(Failure::new(self.alloc, call, path, target, fault));
        }
        self.faults = self.faults.saturating_add(1);
        Disk
    }

    /// The result of a call on a name, given the answer of `host_root`. An error is counted as a
    /// fault, also if it is a lack of memory.
    fn note_answer<T>(
        &mut self,
        call: &'static str,
        name: &Name,
        answer: Result<T, HostFault>,
    ) -> Result<T, Disk>
        // On success no fault is counted.
        ensures ok { OnOk result (self.new.faults ≡ self.old.faults) }
        // An error is counted as one fault.
        ensures err { OnErr result (self.new.faults ≡ saturating_increment self.old.faults) }
        // The count of faults does not fall.
        ensures later { self.old.faults ≤ self.new.faults }
    {
        match answer {
            Ok(value) => Ok(value),
            Err(fault) => Err(self.note_failure(call, name.as_bytes(), b"", fault)),
        }
    }
}

impl<'a, R: Host> Tree for HostTree<'a, R> {
    ghost use Rattle.std.proofs.lemmas.List.Elements.{All-nil};
    ghost use Rattle.base_core.specs.Tree.{IsWellFormed};

    // The history is not observable: no contract sees the host's files.
    ghost history = { λ tree. [] };

    // The counts are those of a host's tree with this many faults.
    ghost counts = { λ tree. host_counts tree.faults };

    // The proof that each state of the history is well formed: the history has no state.
    ghost whole = { λ tree. All-nil IsWellFormed };

    // True of each source and each name: nothing is claimed of which renames the host accepts.
    ghost accepts = { λ source name. Unit {0} };

    // The number of bytes of the file under a name, or None if there is none.
    fn size(&mut self, name: &Name) -> Result<Option<u64>, Disk> {
        let answer = self.root.length_of(name.as_bytes());
        self.note_answer("look at", name, answer)
    }

    // Fills the buffer `into` with the bytes of a file from the offset `at` on.
    fn read_at(&mut self, name: &Name, at: u64, into: &mut [u8]) -> Result<(), Disk> {
        let answer = self.root.fill(name.as_bytes(), at, into);
        self.note_answer("read", name, answer)
    }

    // Makes an empty file under an absent name.
    fn create(&mut self, name: &Name) -> Result<(), Disk> {
        let answer = self.root.begin(name.as_bytes());
        self.note_answer("create", name, answer)
    }

    // Appends the bytes `piece` to a file.
    fn append(&mut self, name: &Name, piece: &[u8]) -> Result<(), Disk> {
        let answer = self.root.add(name.as_bytes(), piece);
        self.note_answer("write", name, answer)
    }

    // Syncs a file.
    fn sync(&mut self, name: &Name) -> Result<(), Disk> {
        let answer = self.root.write_file_through(name.as_bytes());
        self.note_answer("sync", name, answer)
    }

    // Renames the file of `from` to `to`, in one step.
    fn rename(&mut self, from: &Name, to: &Name) -> Result<(), Disk> {
        match self.root.move_file(from.as_bytes(), to.as_bytes()) {
            Ok(()) => Ok(()),
            Err(fault) => {
                Err(self.note_failure("rename", from.as_bytes(), to.as_bytes(), fault))
            }
        }
    }

    // Removes a name; if the name is absent, nothing changes.
    fn remove(&mut self, name: &Name) -> Result<(), Disk> {
        let answer = self.root.remove_file_at(name.as_bytes());
        self.note_answer("remove", name, answer)
    }

    // Syncs the folders in which names changed.
    fn sync_names(&mut self) -> Result<(), Disk> {
        match self.write_names_through() {
            Ok(()) => Ok(()),
            Err(fault) => Err(self.note_failure("sync folders", b"", b"", fault)),
        }
    }

    // The names of all files below a folder. If there is no memory for the result, this is no fault
    // of the tree.
    fn list(&mut self, alloc: Global, folder: &Name) -> Result<Names, TreeFault> {
        // Whether there is an executable file or an empty folder, which a listing does not show.
        let mut has_omitted = false;
        match list_below(&mut self.root, alloc, folder, &mut has_omitted) {
            Ok(names) => {
                self.has_omitted = has_omitted && !names.is_empty();
                Ok(names)
            }
            Err(HostFault::Memory) => Err(TreeFault::Memory),
            Err(fault) => {
                let fault = self.note_failure("list", folder.as_bytes(), b"", fault);
                Err(fault.into())
            }
        }
    }

    // Returns Ok if the host will let the file of `source` be renamed to the name later, or,
    // without a `source`, if it will let the name be removed.
    fn check_target(&mut self, name: &Name, source: Option<&Name>) -> Result<(), Disk> {
        let source = source.map(|source| source.as_bytes());
        let answer = self.root.check_target(name.as_bytes(), source);
        self.note_answer("check", name, answer)
    }
}
