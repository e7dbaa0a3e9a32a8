//! Finds what the host has at a path: nothing, a folder or a regular file.
//! The rules are in `docs/crash-safety.md`, "What the host's tree does", the row of each call on
//! a path and that of `size`.

use super::failure::{HostFault, Reason};
use super::rights::Rights;
use std::alloc::Global;
use std::fs::{Files, Metadata};
use std::io::ErrorKind;
use std::os::unix::fs::MetadataExt;
use std::{fs, io, str};

/// What the host has at a path.
#[derive(Clone, Copy)]
pub enum Found {
    /// There is nothing at the path.
    Nothing,
    /// There is a folder.
    Folder,
    /// There is a regular file, with this metadata.
    File(LookedAt),
}

/// A regular file as it was found: its length in bytes, its mode and owner, and its identity on the
/// host.
#[derive(Clone, Copy)]
pub struct LookedAt {
    /// The length of the file in bytes.
    pub len: u64,
    /// The mode and the owner of the file.
    pub rights: Rights,
    // The host's number of the device that the file is on.
    device: u64,
    // The number of the file on its device.
    number: u64,
}

impl LookedAt {
    /// The regular file with this metadata of the host.
    fn of(data: &Metadata) -> LookedAt {
        LookedAt {
            len: data.len(),
            rights: Rights::of(data),
            device: data.dev(),
            number: data.ino(),
        }
    }

    /// Whether the host's metadata of an open file belongs to this regular file.
    pub fn is(&self, data: &Metadata) -> bool {
        data.is_file() && data.dev() == self.device && data.ino() == self.number
    }
}

impl Found {
    /// Whether there is a folder at the path.
    pub fn is_folder(&self) -> bool {
        matches!(self, Found::Folder)
    }
}

/// What is at `path`; `host_path` is the path, perhaps a shorter one, that is given to the host for
/// it. A symbolic link is not followed. The link is a fault, as is anything else that is neither a
/// regular file nor a folder. If a name in the path is too long for the host, nothing is there.
pub fn look<R: Files>(
    rt: &R,
    alloc: Global,
    path: &[u8],
    host_path: &str,
) -> Result<Found, HostFault> {
    match fs::symlink_metadata(rt, host_path) {
        Err(e) if e.kind() == ErrorKind::InvalidFilename => Ok(Found::Nothing),
        looked => found_of(alloc, path, looked),
    }
}

/// What is at a path at which a file is to be written. The result is that of `look`, but a name
/// that is too long for the host is a fault.
pub fn look_to_write<R: Files>(rt: &R, alloc: Global, path: &[u8]) -> Result<Found, HostFault> {
    found_of(alloc, path, fs::symlink_metadata(rt, path_text(path)?))
}

/// What is at a path, given the host's metadata of the path, or the host's error.
fn found_of(alloc: Global, path: &[u8], looked: io::Result<Metadata>) -> Result<Found, HostFault> {
    let data = match looked {
        Ok(data) => data,
        // These errors say that there is nothing at the path.
        Err(e) if matches!(e.kind(), ErrorKind::NotFound | ErrorKind::NotADirectory) => {
            return Ok(Found::Nothing);
        }
        Err(e) => return Err(e.into()),
    };
    if data.is_file() {
        return Ok(Found::File(LookedAt::of(&data)));
    }
    if data.is_dir() {
        return Ok(Found::Folder);
    }
    let reason = if data.is_symlink() {
        Reason::Link
    } else {
        Reason::Special
    };
    Err(HostFault::at(alloc, reason, path))
}

/// Whether two metadata of the host belong to the same file or folder.
pub fn is_same(a: &Metadata, b: &Metadata) -> bool {
    a.dev() == b.dev() && a.ino() == b.ino()
}

/// A path as text, as the host takes it. A path that is no UTF-8 text is a fault.
pub fn path_text(path: &[u8]) -> Result<&str, HostFault> {
    match str::from_utf8(path) {
        Ok(text) => Ok(text),
        Err(_) => Err(HostFault::own(Reason::NoName)),
    }
}

/// Whether a byte is the slash between two parts of a path.
pub fn is_slash(byte: &u8) -> bool {
    *byte == b'/'
}

/// The path of the folder that contains a path. The root is the empty path.
pub fn parent_of(path: &[u8]) -> &[u8] {
    match path.iter().rposition(is_slash) {
        Some(end) => &path[..end],
        None => &[],
    }
}

/// The last part of a path: what follows its last slash.
pub fn last_part_of(path: &[u8]) -> &[u8] {
    match path.iter().rposition(is_slash) {
        Some(end) => &path[end + 1..],
        None => path,
    }
}
