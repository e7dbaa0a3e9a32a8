//! The folder that contains the paths that were used last, and shorter paths to its files if the
//! folder is deep. The rules are in `docs/crash-safety.md`, "What the host's tree does", the first
//! two points of the part "Folders".

use super::Host;
use super::failure::HostFault;
use super::found::{is_same, is_slash, last_part_of, path_text};
use std::alloc::Global;
use std::fs;
use std::fs::{File, OpenFile};
use std::os::fd::AsRawFd;

/// If a file has at least this many folders above it, the host gets a path through its open folder.
/// With fewer folders, the host resolves the whole path as fast.
const DEEP: usize = 32;

/// After this many paths in a row in one folder, the folder is opened.
const PATHS_IN_A_ROW: u32 = 4;

/// The folder that contains the paths that were used last. The root is the empty path.
#[derive(Drop)]
pub struct LastFolder {
    // The path of the folder.
    path: Vec<u8>,
    // How many paths in a row were in the folder.
    paths: u32,
    // The open folder, if it is deep and was used often enough.
    opened: Option<OpenFolder>,
}

impl LastFolder {
    /// The folder at a path, in which no path was used so far.
    pub fn new(path: Vec<u8>) -> LastFolder {
        LastFolder {
            path,
            paths: 0,
            opened: None,
        }
    }

    /// Whether this is the folder at a path.
    pub fn is(&self, path: &[u8]) -> bool {
        self.path.as_slice() == path
    }

    /// The path that is given to the host for `path`, which is in this folder: a shorter path if
    /// the folder is open. The call counts as one more path in a row.
    pub fn host_path<'b, R: Host>(
        &'b mut self,
        rt: &R,
        alloc: Global,
        path: &'b [u8],
    ) -> Result<&'b str, HostFault> {
        self.paths = self.paths.saturating_add(1);
        // The number of folders above the path is the number of parts of this folder.
        if self.paths == PATHS_IN_A_ROW && self.path.split(is_slash).count() >= DEEP {
            self.opened = OpenFolder::open(rt, alloc, &self.path)?;
        }
        match &mut self.opened {
            Some(folder) => folder.path_to(last_part_of(path)),
            None => path_text(path),
        }
    }
}

/// An open folder, and the short path by which the host finds it, `/proc/self/fd/N/`.
#[derive(Drop)]
struct OpenFolder {
    // The open folder, which stays open as long as the path is used.
    _file: File,
    // The short path of the folder with a slash, followed by the last part of the path that was
    // used last.
    path: Vec<u8>,
    // The length of the short path of the folder with its slash, in bytes.
    folder_len: usize,
}

impl OpenFolder {
    /// Opens a folder. Returns None if that fails, or if its path or its short path does not lead
    /// to the open folder. The host then gets the paths of files themselves.
    fn open<R: Host>(
        rt: &R,
        alloc: Global,
        folder: &[u8],
    ) -> Result<Option<OpenFolder>, HostFault> {
        let folder = path_text(folder)?;
        let Ok(file) = fs::open(rt, folder) else {
            return Ok(None);
        };
        // The number of the open folder (its file descriptor), which is part of the short path.
        let number = file.as_raw_fd();
        let path = format!(in alloc; "/proc/self/fd/{number}/")?;
        if !leads_to(rt, path.as_str(), &file) || !leads_to(rt, folder, &file) {
            return Ok(None);
        }
        let path = path.into_bytes();
        Ok(Some(OpenFolder {
            _file: file,
            folder_len: path.len(),
            path,
        }))
    }

    /// The short path of a file or folder in the open folder, given the last part of its path.
    fn path_to(&mut self, part: &[u8]) -> Result<&str, HostFault> {
        self.path.truncate(self.folder_len);
        self.path.extend_from_slice(part)?;
        path_text(&self.path)
    }
}

/// Whether an open file or folder is the one at a path. A symbolic link at the path is not
/// followed.
fn leads_to<R: Host>(rt: &R, path: &str, file: &File) -> bool {
    match (fs::symlink_metadata(rt, path), file.metadata()) {
        (Ok(found), Ok(opened)) => is_same(&found, &opened),
        _ => false,
    }
}
