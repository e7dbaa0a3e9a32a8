//! Files that stay open between calls.
//! The rules are in `docs/crash-safety.md`, "What the host's tree does", the rows of `read_at`,
//! `create`, `append` and `sync`.

use super::Host;
use super::failure::{HostFault, Reason};
use super::found::{LookedAt, path_text};
use super::rights::FILE_MODE;
use std::alloc::Global;
use std::fs::{File, OpenOptions};
use std::io::{ErrorKind, Read, Seek, SeekFrom, Write};
use std::os::unix::fs::OpenOptionsExt;

/// An open file of the host, which stays open between calls of the tree.
#[derive(Drop)]
pub struct Opened {
    // The path under which the file was opened.
    path: Vec<u8>,
    // The open file.
    file: File,
    // The number of bytes of the file, as far as this run knows.
    len: u64,
    // The offset of the next read; None if that is not known.
    at: Option<u64>,
}

impl Opened {
    /// The file that was opened at a path. If it is not the regular file `looked_at`, which was
    /// found at this path before, this is a fault.
    pub fn of(
        alloc: Global,
        path: &[u8],
        file: File,
        looked_at: LookedAt,
    ) -> Result<Opened, HostFault> {
        let data = file.metadata()?;
        if !looked_at.is(&data) {
            return Err(HostFault::own(Reason::Swapped));
        }
        Ok(Opened {
            path: Vec::from_slice(alloc, path)?,
            file,
            len: data.len(),
            at: Some(0),
        })
    }

    /// Makes an empty file at a path, and opens the file for appending. Anything that is at the
    /// path already is a fault.
    pub fn make<R: Host>(rt: &R, alloc: Global, path: &[u8]) -> Result<Opened, HostFault> {
        let copy = Vec::from_slice(alloc, path)?;
        let mut options = OpenOptions::new();
        let file = options
            .append(true)
            .create_new(true)
            .mode(FILE_MODE)
            .open(rt, path_text(path)?)?;
        Ok(Opened {
            path: copy,
            file,
            len: 0,
            at: Some(0),
        })
    }

    /// Fills the buffer `into` with the bytes of the file from the offset `at` on. A file that is
    /// too short for this is a fault.
    pub fn fill(&mut self, at: u64, into: &mut [u8]) -> Result<(), HostFault> {
        if at > self.len || into.len() as u64 > self.len - at {
            return Err(HostFault::own(Reason::EndsEarly));
        }
        // If the last read did not end at this offset, the host is told where to read.
        if self.at != Some(at) {
            self.file.seek(SeekFrom::Start(at))?;
        }
        // If the read fails, the offset of the next read is not known.
        self.at = None;
        match self.file.read_exact(into) {
            Ok(()) => {
                self.at = Some(at + into.len() as u64);
                Ok(())
            }
            // The file became shorter since it was opened.
            Err(e) if e.kind() == ErrorKind::UnexpectedEof => {
                Err(HostFault::own(Reason::EndsEarly))
            }
            Err(e) => Err(e.into()),
        }
    }

    /// Appends the bytes `piece` to the file. After a fault, the file may end with some of them.
    pub fn add(&mut self, piece: &[u8]) -> Result<(), HostFault> {
        self.file.write_all(piece)?;
        self.len = self.len.saturating_add(piece.len() as u64);
        Ok(())
    }

    /// Cuts off the bytes that a failed call of `add` has written. Returns whether that succeeded.
    pub fn cut_back(&mut self) -> bool {
        self.file.set_len(self.len).is_ok()
    }

    /// Syncs the file, so that its bytes survive a crash.
    pub fn write_through(&self) -> Result<(), HostFault> {
        Ok(self.file.sync_all()?)
    }
}

/// Whether `slot` has an open file that was opened under this path.
pub fn is_open(slot: &Option<Opened>, path: &[u8]) -> bool {
    match slot {
        Some(opened) => opened.path.as_slice() == path,
        None => false,
    }
}

/// Closes the file in `slot`, if it is the open file of this path.
pub fn close(slot: &mut Option<Opened>, path: &[u8]) {
    if is_open(slot, path) {
        *slot = None;
    }
}
