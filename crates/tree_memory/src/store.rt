//! The store of a tree in memory: its record of changes, and the current state.
//! The rules are in `docs/crash-safety.md`: "What each call does" for what a change does, "Misuses,
//! faults and counts" for what is a misuse.

ghost use Rattle.std.specs.Prelude.{◌≡◌, ◌↔◌, ℕ, ◌<◌, ◌≤◌, ◌+◌, [], ◌∷◌, ◌++◌, List, IsTrue, IfOk, IfSome, OnOk, OnErr, length, take, drop, false, All};
ghost use Rattle.std.specs.Option.{option_copied};
ghost use Rattle.std.specs.Vec.{vec_len, vec_capacity};
ghost use Rattle.base_core.specs.Listed.{IsSortedListOfAllNamesInMap, IsSortedListingOfFolder};
ghost use Rattle.base_core.specs.Tree.{files_of, HasName, CanRead, CanCreate, CanRename, after_create, after_append, after_sync, after_rename, after_remove, after_sync_names};
ghost use Rattle.tree_memory.specs.Changes.{empty_state, after_put};
ghost use Rattle.tree_memory.specs.Kept.{IsConsistentStore, CanPut};

use crate::table::NameTable;
use base_core::{Name, Names};
use std::alloc::{AllocError, Global};

/// The record of all changes of a tree, and its current state: the names, and the files by number.
#[derive(Drop)]
pub struct Store {
    /// Where memory is taken.
    pub alloc: Global,
    /// The record: all changes since the tree was empty, the oldest first.
    pub changes: Vec<Change>,
    /// The current names, each with the number of its file.
    pub names: NameTable,
    /// All files that were made, by their numbers, including those that no name leads to any more.
    pub files: Vec<Stored>,
    // The invariant: the names and the files are those of the state after all recorded changes.
    pub ghost in_step: { IsConsistentStore changes.items names.entries.items files.items },
}

impl Store {
    ghost use Rattle.tree_memory.specs.Stores.{store_state, store_history};

    /// The store of an empty tree.
    pub fn new(alloc: Global) -> Store
        ensures { store_history result ≡ empty_state ∷ [] }
    {
        Store {
            alloc,
            changes: Vec::new(alloc),
            names: NameTable::new(alloc),
            files: Vec::new(alloc),
        }
    }

    // ---- what is read

    /// The bytes of a file as read, or None exactly if the name is absent.
    pub fn file(&self, name: &Name) -> Option<&[u8]>
        ensures { option_copied result ≡ files_of (store_state self.now) name.now }
    {
        match self.names.find(name.as_bytes()) {
            None => None,
            Some(file) => Some(&self.files[file].bytes),
        }
    }

    /// Fills the buffer `into` with the file's bytes from the offset `at` on.
    pub fn read_at(&self, name: &Name, at: u64, into: &mut [u8])
        // The file must be present, and have as many bytes after the offset as the buffer.
        requires { CanRead name.now at (length into.old) (store_state self.now) }
        // The buffer has the bytes of the file from the offset on.
        ensures { IfSome (files_of (store_state self.now) name.now)
            (λ bytes. into.new ≡ take (length into.old) (drop at bytes)) }
    {
        if let Some(bytes) = self.file(name) {
            copy_from(bytes, at as usize, into);
        }
    }

    /// The present names, in byte order.
    pub fn names(&self, alloc: Global) -> Result<Names, AllocError>
        ensures { IfOk result (IsSortedListOfAllNamesInMap (store_state self.now).names) }
    {
        self.names.list(alloc)
    }

    /// The present names below a folder, in byte order.
    pub fn list(&self, alloc: Global, folder: &Name) -> Result<Names, AllocError>
        ensures { IfOk result (IsSortedListingOfFolder folder.now (store_state self.now)) }
    {
        self.names.list_below(alloc, folder.as_bytes())
    }

    // ---- whether the current state allows a call; a call that it does not allow is a misuse

    /// Whether the file is present, and has at least `len` bytes from the offset `at` on.
    pub fn can_read(&self, name: &Name, at: u64, len: usize) -> bool
        ensures { IsTrue result ↔ CanRead name.now at len (store_state self.now) }
    {
        match self.file(name) {
            None => false,
            Some(bytes) => has_range(bytes, at, len),
        }
    }

    /// Whether the name is present.
    pub fn has(&self, name: &Name) -> bool
        ensures { IsTrue result ↔ HasName name.now (store_state self.now) }
    {
        self.names.find(name.as_bytes()).is_some()
    }

    /// Whether a file may be put under the name: no name becomes a folder of another.
    pub fn can_put(&self, name: &Name) -> bool
        ensures { IsTrue result ↔ CanPut name.now (store_state self.now) }
    {
        self.names.fits(name.as_bytes(), name.as_bytes())
    }

    /// Whether a file may be made under the name: it is absent, and no name becomes a folder of
    /// another.
    pub fn can_create(&self, name: &Name) -> bool
        ensures { IsTrue result ↔ CanCreate name.now (store_state self.now) }
    {
        if self.has(name) {
            return false;
        }
        self.can_put(name)
    }

    /// Whether the file of the name `from` may get the other name `to`: `from` is present, and
    /// afterwards no name is a folder of another.
    pub fn can_rename(&self, from: &Name, to: &Name) -> bool
        ensures { IsTrue result ↔ CanRename from.now to.now (store_state self.now) }
    {
        if !self.has(from) {
            return false;
        }
        if from.as_bytes() == to.as_bytes() {
            return false;
        }
        self.names.fits(to.as_bytes(), from.as_bytes())
    }

    // ---- changes; a change that runs out of memory changes nothing

    /// Puts a new synced file under the name, and syncs the names.
    pub fn put(&mut self, name: &Name, bytes: Vec<u8>) -> Result<(), AllocError>
        // The name must fit beside the other names: no name becomes a folder of another.
        requires { CanPut name.now (store_state self.old) }
        // On success one state is added to the history, that after this call.
        ensures ok { OnOk result (store_history self.new
            ≡ after_put name.now bytes.items (store_state self.old) ∷ store_history self.old) }
        // An error adds no state to the history.
        ensures err { OnErr result (store_history self.new ≡ store_history self.old) }
    {
        // All memory is reserved before the first change, so that a refused put changes nothing.
        self.changes.reserve(1)?;
        self.files.reserve(1)?;
        // The number of the new file.
        let file = self.files.len();
        let len = bytes.len();
        // Two copies of the name: one for the record of changes, one for the table of names.
        let recorded = name.copy(self.alloc)?;
        let named = name.copy(self.alloc)?;
        self.names.set(named, file)?;
        add(
            &mut self.files,
            Stored {
                bytes,
                synced: true,
            },
        );
        add(
            &mut self.changes,
            Change::Put {
                name: recorded,
                file,
                len,
            },
        );
        Ok(())
    }

    /// Makes a new empty file under the name.
    pub fn create(&mut self, name: &Name) -> Result<(), AllocError>
        // The name must be absent, and fit beside the other names.
        requires { CanCreate name.now (store_state self.old) }
        // On success one state is added to the history, that after this call.
        ensures ok { OnOk result (store_history self.new
            ≡ after_create name.now (store_state self.old) ∷ store_history self.old) }
        // An error adds no state to the history.
        ensures err { OnErr result (store_history self.new ≡ store_history self.old) }
    {
        // Memory for the record of this change, so that nothing fails after the first change.
        self.changes.reserve(1)?;
        self.files.reserve(1)?;
        // The number of the new file.
        let file = self.files.len();
        // Two copies of the name: one for the record of changes, one for the table of names.
        let recorded = name.copy(self.alloc)?;
        let named = name.copy(self.alloc)?;
        self.names.set(named, file)?;
        add(
            &mut self.files,
            Stored {
                bytes: Vec::new(self.alloc),
                synced: false,
            },
        );
        add(&mut self.changes, Change::Create { name: recorded });
        Ok(())
    }

    /// Adds a piece at the file's end.
    pub fn append(&mut self, name: &Name, piece: &[u8]) -> Result<(), AllocError>
        // The name must be present.
        requires { HasName name.now (store_state self.old) }
        // On success one state is added to the history, that after this call.
        ensures ok { OnOk result (store_history self.new
            ≡ after_append name.now piece.now (store_state self.old) ∷ store_history self.old) }
        // An error adds no state to the history.
        ensures err { OnErr result (store_history self.new ≡ store_history self.old) }
    {
        if let Some(file) = self.names.find(name.as_bytes()) {
            // Memory for the record of this change, so that nothing fails after the first change.
            self.changes.reserve(1)?;
            self.files[file].append(piece)?;
            let len = self.files[file].bytes.len();
            add(&mut self.changes, Change::Append { file, len });
        }
        Ok(())
    }

    /// Syncs the file.
    pub fn sync(&mut self, name: &Name) -> Result<(), AllocError>
        // The name must be present.
        requires { HasName name.now (store_state self.old) }
        // On success one state is added to the history, that after this call.
        ensures ok { OnOk result (store_history self.new
            ≡ after_sync name.now (store_state self.old) ∷ store_history self.old) }
        // An error adds no state to the history.
        ensures err { OnErr result (store_history self.new ≡ store_history self.old) }
    {
        if let Some(file) = self.names.find(name.as_bytes()) {
            // Memory for the record of this change, so that nothing fails after the first change.
            self.changes.reserve(1)?;
            self.files[file].synced = true;
            add(&mut self.changes, Change::Sync { file });
        }
        Ok(())
    }

    /// Moves the file of one name to another.
    pub fn rename(&mut self, from: &Name, to: &Name) -> Result<(), AllocError>
        // `from` must be present, and `to` must be another name that fits beside the other names.
        requires { CanRename from.now to.now (store_state self.old) }
        // On success one state is added to the history, that after this call.
        ensures ok { OnOk result (store_history self.new
            ≡ after_rename from.now to.now (store_state self.old) ∷ store_history self.old) }
        // An error adds no state to the history.
        ensures err { OnErr result (store_history self.new ≡ store_history self.old) }
    {
        if let Some(file) = self.names.find(from.as_bytes()) {
            // Memory for the record of this change, so that nothing fails after the first change.
            self.changes.reserve(1)?;
            // Copies of the names: two for the record of changes, one for the table of names.
            let recorded_from = from.copy(self.alloc)?;
            let recorded_to = to.copy(self.alloc)?;
            let named = to.copy(self.alloc)?;
            self.names.set(named, file)?;
            self.names.remove(from.as_bytes());
            add(
                &mut self.changes,
                Change::Rename {
                    from: recorded_from,
                    to: recorded_to,
                },
            );
        }
        Ok(())
    }

    /// Removes the name. If it is absent, one more state is added that equals the newest state.
    pub fn remove(&mut self, name: &Name) -> Result<(), AllocError>
        // On success one state is added to the history, that after this call.
        ensures ok { OnOk result (store_history self.new
            ≡ after_remove name.now (store_state self.old) ∷ store_history self.old) }
        // An error adds no state to the history.
        ensures err { OnErr result (store_history self.new ≡ store_history self.old) }
    {
        if !self.has(name) {
            // Memory for the record of this change, so that nothing fails after the first change.
            self.changes.reserve(1)?;
            add(&mut self.changes, Change::Stay);
            return Ok(());
        }
        // Memory for the record of this change, so that nothing fails after the first change.
        self.changes.reserve(1)?;
        let recorded = name.copy(self.alloc)?;
        self.names.remove(name.as_bytes());
        add(&mut self.changes, Change::Remove { name: recorded });
        Ok(())
    }

    /// Syncs the names.
    pub fn sync_names(&mut self) -> Result<(), AllocError>
        // On success one state is added to the history, that after this call.
        ensures ok { OnOk result (store_history self.new
            ≡ after_sync_names (store_state self.old) ∷ store_history self.old) }
        // An error adds no state to the history.
        ensures err { OnErr result (store_history self.new ≡ store_history self.old) }
    {
        // Memory for the record of this change, so that nothing fails after the first change.
        self.changes.reserve(1)?;
        add(&mut self.changes, Change::SyncNames);
        Ok(())
    }
}

// Adds an element to a list, whose memory was reserved before.
fn add<X: Drop>(list: &mut Vec<X>, x: X)
    // The list must have room for one more element.
    requires { vec_len list.old < vec_capacity list.old }
    // The element is added at the end of the list.
    ensures { list.new.items ≡ list.old.items ++ x ∷ [] }
{
    // There is room, so that the push cannot fail.
    let _ = list.push(x);
}

/// Whether `bytes` has at least `len` bytes from the offset `at` on.
fn has_range(bytes: &[u8], at: u64, len: usize) -> bool
    ensures { IsTrue result ↔ (at + len ≤ length bytes.now) }
{
    let have = bytes.len();
    if (have as u64) < at {
        return false;
    }
    len <= have - at as usize
}

/// Fills the buffer `into` with the bytes from the offset `start` on.
fn copy_from(bytes: &[u8], start: usize, into: &mut [u8])
    // There are enough bytes from the offset on to fill the buffer.
    requires { start + length into.old ≤ length bytes.now }
    ensures { into.new ≡ take (length into.old) (drop start bytes.now) }
{
    let end = start + into.len();
    into.copy_from_slice(&bytes[start..end]);
}

/// A recorded change of a tree. `file` is the number of a file, and `len` is its length after the
/// change. The bytes are not repeated here: they are the first `len` bytes of the file.
#[derive(Drop)]
pub enum Change {
    /// A new synced file under a name, and the names synced.
    Put { name: Name, file: usize, len: usize },
    /// A new empty file under a name.
    Create { name: Name },
    /// Bytes were added at the file's end, which makes the file unsynced.
    Append { file: usize, len: usize },
    /// The file is synced.
    Sync { file: usize },
    /// The name `from` is absent afterwards, and the name `to` leads to its file.
    Rename { from: Name, to: Name },
    /// The name, which was present, is absent afterwards.
    Remove { name: Name },
    /// The names are synced.
    SyncNames,
    /// Nothing changed: an absent name was removed.
    Stay,
}

/// The bytes of a file, and whether a crash keeps exactly these bytes.
#[derive(Drop)]
pub struct Stored {
    /// The bytes as read.
    pub bytes: Vec<u8>,
    /// Whether the file is synced: a crash keeps exactly these bytes.
    pub synced: bool,
}

impl Stored {
    /// Adds a piece at the end of the file, which is unsynced then. If out of memory, nothing
    /// changes.
    pub fn append(&mut self, piece: &[u8]) -> Result<(), AllocError>
        // On success the piece is added at the end of the bytes.
        ensures bytes { OnOk result (self.new.bytes.items ≡ self.old.bytes.items ++ piece.now) }
        // On success the file is unsynced.
        ensures synced { OnOk result (self.new.synced ≡ false) }
        // Each byte of the piece is a byte: below 256.
        ensures piece { All (λ b. b < 256) piece.now }
        // An error leaves the bytes as they were.
        ensures same_bytes { OnErr result (self.new.bytes.items ≡ self.old.bytes.items) }
        // An error leaves the file synced or unsynced, as it was.
        ensures same_synced { OnErr result (self.new.synced ≡ self.old.synced) }
    {
        self.bytes.extend_from_slice(piece)?;
        self.synced = false;
        Ok(())
    }
}
