//! The root, which is the folder that the program runs in: what each call of a tree does on the
//! host. `host_tree` makes these calls, and counts those that fail. The file that was read last and
//! the file that is being written stay open between calls. The rules are in `docs/crash-safety.md`,
//! "What the host's tree does": the rows of its table, and the parts after the table.

use super::folders::Folders;
use super::targets::{Targets, check_remove};
use host_files::{
    Found, Held, Host, HostFault, LOCK_FOLDER, Lock, LookedAt, Opened, Reason, close, is_open,
    lock_root, parent_of, path_text, unlock_root,
};
use std::alloc::Global;
use std::fs;
use std::fs::OpenOptions;

/// The path of the journal entry. The file exists while a committed change is not completed
/// (`docs/crash-safety.md`, "A change of several files").
const INTENT: &str = "lib/apk/intent";

/// The last bytes of the path at which a new file is written beside a file that the user modified
/// (`docs/commands.md`, "What a change does with files").
const ASIDE_ENDING: &[u8] = b".apk-new";

/// The root, as one run of the program uses it. From the first call on, this run holds a lock on
/// the root, so that it is the only run that writes there.
#[derive(Drop)]
pub struct Root<'a, R: Host> {
    // The runtime, through which the host is called.
    rt: &'a R,
    // Where memory is taken.
    alloc: Global,
    // Which lock the first call takes: shared, or for this run alone.
    lock: Lock,
    // The lock, while this run holds it; None before the first call and after `leave`.
    held: Option<Held>,
    // The open file that was read last.
    reader: Option<Opened>,
    // The open file that is being written.
    writer: Option<Opened>,
    // The path of the regular file that was found last, with its metadata, unless something was
    // written since.
    seen: Option<(Vec<u8>, LookedAt)>,
    // The folders below the root that this run has found, made or changed.
    folders: Folders,
    // The folders to which the host lets files be renamed, as far as this run has tested them.
    targets: Targets,
    // Whether this run has found a journal entry (at `INTENT`), and has not removed it yet: then it
    // is completing the change of an earlier run.
    recovers: bool,
    // Whether the host has failed to sync, or to cut off bytes that a failed append had written.
    // The host may have dropped bytes that it could not write. A later sync would then succeed
    // without writing them, so every later sync of this run is an error.
    has_lost: bool,
    // The target of the last rename, if it is not synced yet.
    maybe_renamed_name: Option<Vec<u8>>,
}

impl<'a, R: Host> Root<'a, R> {
    /// The root of a run that has done nothing yet: no file is open, and the lock is not taken.
    pub fn new(rt: &'a R, alloc: Global, lock: Lock) -> Root<'a, R> {
        Root {
            rt,
            alloc,
            lock,
            held: None,
            reader: None,
            writer: None,
            seen: None,
            folders: Folders::new(alloc),
            targets: Targets::new(alloc),
            recovers: false,
            has_lost: false,
            maybe_renamed_name: None,
        }
    }

    /// The name that may lead to its new file although the run failed: a file was renamed to it,
    /// and the names were not synced since.
    pub fn maybe_renamed_name(&self) -> Option<&[u8]> {
        match &self.maybe_renamed_name {
            Some(name) => Some(name),
            None => None,
        }
    }

    /// Whether there is a journal entry: a change is committed and not completed, and the next
    /// command that recovers completes it. False if this run does not hold the lock, since another
    /// run may be making the change.
    pub fn has_unfinished_change(&self) -> bool {
        self.held.is_some() && fs::symlink_metadata(self.rt, INTENT).is_ok()
    }

    /// Whether this run has found the committed change of an earlier run, and has not completed it
    /// yet.
    pub fn recovers(&self) -> bool {
        self.recovers
    }

    /// Notes the folders above a path, so that the next sync of the names syncs them even if this
    /// run changes no name in them.
    pub fn note_way(&mut self, path: &[u8]) -> Result<(), HostFault> {
        self.take_lock()?;
        self.folders.note_way(self.rt, path)
    }

    /// Releases the lock, if it is held. No call follows this one.
    pub fn leave(&mut self) {
        if let Some(held) = &self.held {
            unlock_root(self.rt, held);
        }
        self.held = None;
    }

    /// The runtime, through which the host is called.
    pub fn runtime(&self) -> &'a R {
        self.rt
    }

    /// What is at a path. The lock has to be held.
    pub fn find(&mut self, path: &[u8]) -> Result<Found, HostFault> {
        self.folders.find(self.rt, path)
    }

    /// Remembers that there is a folder at a path, so that the host is not asked for it again.
    pub fn keep_known(&mut self, folder: &[u8]) -> Result<(), HostFault> {
        self.folders.keep_known(folder)
    }

    /// Takes the lock on the folder, if it is not held yet.
    pub fn take_lock(&mut self) -> Result<(), HostFault> {
        if self.held.is_none() {
            self.held = Some(lock_root(self.rt, self.lock)?);
        }
        Ok(())
    }

    /// Takes the lock for a call that writes, or that tests whether the host allows a write. If the
    /// lock does not exclude other runs that write, this is a fault.
    fn take_lock_to_write(&mut self) -> Result<(), HostFault> {
        self.take_lock()?;
        match &self.held {
            Some(held) if held.may_write() => Ok(()),
            _ => Err(HostFault::at(self.alloc, Reason::NoLockFolder, LOCK_FOLDER.as_bytes())),
        }
    }

    /// The length of the regular file at a path, or None if there is none.
    pub fn length_of(&mut self, path: &[u8]) -> Result<Option<u64>, HostFault> {
        self.take_lock()?;
        match self.folders.find(self.rt, path)? {
            Found::File(looked_at) => {
                // A journal entry was found: an earlier run did not complete its change.
                self.recovers |= path == INTENT.as_bytes();
                self.seen = Some((Vec::from_slice(self.alloc, path)?, looked_at));
                Ok(Some(looked_at.len))
            }
            Found::Folder | Found::Nothing => Ok(None),
        }
    }

    /// The metadata of the regular file at a path: as the last call of `length_of` found it, if
    /// that call was for this path and nothing was written since; otherwise the host is asked. If
    /// there is no regular file, this is a fault.
    fn look_at(&mut self, path: &[u8]) -> Result<LookedAt, HostFault> {
        if let Some((seen, looked_at)) = &self.seen
            && seen.as_slice() == path
        {
            return Ok(*looked_at);
        }
        match self.folders.find(self.rt, path)? {
            Found::File(looked_at) => Ok(looked_at),
            Found::Folder => Err(HostFault::own(Reason::Folder)),
            Found::Nothing => Err(HostFault::own(Reason::Nothing)),
        }
    }

    /// Fills the buffer `into` with the bytes of the file at a path, from the offset `at` on.
    pub fn fill(&mut self, path: &[u8], at: u64, into: &mut [u8]) -> Result<(), HostFault> {
        self.take_lock()?;
        if !is_open(&self.reader, path) {
            let looked_at = self.look_at(path)?;
            let file = fs::open(self.rt, self.folders.host_path(self.rt, path)?)?;
            self.reader = Some(Opened::of(self.alloc, path, file, looked_at)?);
        }
        match &mut self.reader {
            Some(reader) => reader.fill(at, into),
            // Never the case here: the file was opened above.
            None => Err(HostFault::own(Reason::Nothing)),
        }
    }

    /// Makes an empty file at a path, which stays open, and the missing folders above the file. A
    /// folder at the path is removed if only folders are below it. Anything else at the path is a
    /// fault.
    pub fn begin(&mut self, path: &[u8]) -> Result<(), HostFault> {
        self.take_lock_to_write()?;
        self.seen = None;
        self.folders.make_room(self.rt, path)?;
        self.folders.note_way(self.rt, path)?;
        self.folders.note(parent_of(path))?;
        self.writer = Some(Opened::make(self.rt, self.alloc, path)?);
        Ok(())
    }

    /// The file at a path, open for writing: the file that is being written, or else the file is
    /// opened. The lock for a call that writes is taken first.
    fn open_to_write(&mut self, path: &[u8]) -> Result<&mut Opened, HostFault> {
        self.take_lock_to_write()?;
        if self.has_lost {
            return Err(HostFault::own(Reason::LostWrite));
        }
        close(&mut self.reader, path);
        if !is_open(&self.writer, path) {
            let looked_at = self.look_at(path)?;
            let file = OpenOptions::new()
                .append(true)
                .open(self.rt, path_text(path)?)?;
            self.writer = Some(Opened::of(self.alloc, path, file, looked_at)?);
        }
        self.seen = None;
        match &mut self.writer {
            Some(writer) => Ok(writer),
            // Never the case here: the file was opened above.
            None => Err(HostFault::own(Reason::Nothing)),
        }
    }

    /// Appends the bytes `piece` to the file at a path. If that fails, those of the bytes that were
    /// written are cut off again.
    pub fn add(&mut self, path: &[u8], piece: &[u8]) -> Result<(), HostFault> {
        let writer = self.open_to_write(path)?;
        let added = writer.add(piece);
        if added.is_err() && !writer.cut_back() {
            self.has_lost = true;
        }
        added
    }

    /// Syncs the file at a path, so that its bytes survive a crash, and closes it.
    pub fn write_file_through(&mut self, path: &[u8]) -> Result<(), HostFault> {
        let written = self.open_to_write(path)?.write_through();
        self.has_lost = written.is_err();
        self.writer = None;
        written
    }

    /// Renames the file at `from` to `to`, in one call of the host. A folder at `to` is removed
    /// first if only folders are below it. The renamed file first gets the mode and the owner of
    /// the file that it replaces.
    pub fn move_file(&mut self, from: &[u8], to: &[u8]) -> Result<(), HostFault> {
        self.take_lock_to_write()?;
        if from == to {
            return Err(HostFault::own(Reason::SameName));
        }
        // The metadata of the file that is renamed, and what is at its new path.
        let moved = self.look_at(from)?;
        self.forget(from);
        self.forget(to);
        let replaced = self.folders.make_room(self.rt, to)?;
        self.keep_rights(from, moved, to, replaced)?;
        // Names change in both folders, so both are noted for the next sync.
        self.folders.note(parent_of(from))?;
        self.folders.note(parent_of(to))?;
        // The new name is copied before the rename, so that nothing fails after it.
        let target = Vec::from_slice(self.alloc, to)?;
        fs::rename(self.rt, path_text(from)?, path_text(to)?)?;
        self.maybe_renamed_name = Some(target);
        Ok(())
    }

    /// Gives the file at `from` (its metadata is `moved`) the mode and the owner of the file that
    /// it replaces (`replaced`), or of the file at `PATH` if `to` is `PATH.apk-new`. If they are
    /// equal already, nothing is set, except in a recovery: a killed run may have set but not
    /// synced them.
    fn keep_rights(
        &mut self,
        from: &[u8],
        moved: LookedAt,
        to: &[u8],
        replaced: Found,
    ) -> Result<(), HostFault> {
        // The file at `PATH` if the new path is `PATH.apk-new`.
        let beside = match to.strip_suffix(ASIDE_ENDING) {
            Some(beside) => self.folders.find(self.rt, beside)?,
            None => Found::Nothing,
        };
        // The file whose mode and owner are taken over; without such a file, nothing is set.
        let ((Found::File(model), _) | (_, Found::File(model))) = (beside, replaced) else {
            return Ok(());
        };
        if moved.rights == model.rights && !self.recovers {
            return Ok(());
        }
        // If the mode and the owner were not synced, no later sync is trusted.
        let kept = moved.rights.change_to(self.rt, from, model.rights);
        self.has_lost |= kept.is_err();
        kept
    }

    /// Returns Ok if the host will let a file be renamed from the path `source` to `path` later,
    /// or, without a `source`, if it will let the file at `path` be removed.
    pub fn check_target(&mut self, path: &[u8], source: Option<&[u8]>) -> Result<(), HostFault> {
        self.take_lock_to_write()?;
        match source {
            Some(source) => self
                .targets
                .check_write(self.rt, &mut self.folders, path, source),
            None => check_remove(self.rt, self.alloc, &mut self.folders, path),
        }
    }

    /// Removes the file at a path, if there is one, and then the folders above the path that have
    /// become empty. If this run recovers, these folders are removed even if there is no file: a
    /// killed run may have removed the file and not the folders.
    pub fn remove_file_at(&mut self, path: &[u8]) -> Result<(), HostFault> {
        self.take_lock_to_write()?;
        if self.length_of(path)?.is_some() {
            self.forget(path);
            self.folders.note(parent_of(path))?;
            fs::remove_file(self.rt, path_text(path)?)?;
            // Removing the journal entry ends a recovery.
            self.recovers &= path != INTENT.as_bytes();
        } else if !self.recovers {
            return Ok(());
        }
        self.folders.prune(self.rt, path)
    }

    /// Syncs the noted folders, in which names changed since the last such call or may have
    /// changed.
    pub fn write_names_through(&mut self) -> Result<(), HostFault> {
        self.take_lock_to_write()?;
        if self.has_lost {
            return Err(HostFault::own(Reason::LostWrite));
        }
        let written = self.folders.write_through(self.rt);
        if written.is_err() {
            self.has_lost = true;
        } else {
            self.maybe_renamed_name = None;
        }
        written
    }

    /// Closes the file at a path, and forgets its metadata, since the path will lead to another
    /// file.
    fn forget(&mut self, path: &[u8]) {
        self.seen = None;
        close(&mut self.reader, path);
        close(&mut self.writer, path);
    }
}
