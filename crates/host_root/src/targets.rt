//! Tests, before a change, whether the host will let a file be renamed to a path, or be removed.
//! The rules are in `docs/crash-safety.md`, "What the host's tree does", the row of `check_target`.

use super::folders::{Contents, Folders, keep, look_at, push, push_folders};
use host_files::{
    Found, Host, HostFault, LOCK_FOLDER, Reason, is_slash, look_to_write, parent_of, path_text,
};
use std::alloc::Global;
use std::collections::BTreeSet;
use std::fs;
use std::fs::Files;
use std::io::ErrorKind;
use std::os::unix::fs::MetadataExt;

/// The name of the probe: an empty folder that is made, renamed and removed to test what the host
/// allows.
const PROBE: &[u8] = b".apk-probe";

/// The folders to which the host lets a file be renamed, as far as this run has tested them. Each
/// pair of folders is tested once.
#[derive(Drop)]
pub struct Targets {
    // Where memory is taken.
    alloc: Global,
    // The deepest existing folder above the `source` of the tests so far.
    source: Vec<u8>,
    // The folders whose test succeeded: the host renamed the probe between them and `source`.
    asked: BTreeSet<Vec<u8>>,
}

impl Targets {
    /// The state before the first test: no folder was tested.
    pub fn new(alloc: Global) -> Targets {
        Targets {
            alloc,
            source: Vec::new(alloc),
            asked: BTreeSet::new(alloc),
        }
    }

    /// Returns Ok if the host will let a file be renamed from the path `source` to `path`. Neither
    /// need exist yet. Absent folders are not made: the deepest existing folders are tested.
    pub fn check_write<R: Host>(
        &mut self,
        rt: &R,
        folders: &mut Folders,
        path: &[u8],
        source: &[u8],
    ) -> Result<(), HostFault> {
        if is_reserved(path) {
            return Err(HostFault::own(Reason::Reserved));
        }
        // The deepest existing folder above the path.
        let folder = folders.deepest_known_folder(rt, path)?;
        if folder == parent_of(path) {
            check_place(rt, self.alloc, path)?;
        } else {
            // The rest of the path, whose folders do not exist.
            let absent = path.strip_prefix(folder).unwrap_or(path);
            check_parts(rt, self.alloc, folder, absent)?;
        }
        // The deepest existing folder above the file that will be renamed.
        let source = folders.deepest_known_folder(rt, source)?;
        self.check_folder(rt, folder, source)
    }

    /// Tests, once per run, whether the host lets a file be renamed between two folders: the probe
    /// is made in `folder`, renamed to `source`, and removed there. Contracts do not mention the
    /// probe.
    fn check_folder<R: Files>(
        &mut self,
        rt: &R,
        folder: &[u8],
        source: &[u8],
    ) -> Result<(), HostFault> {
        // The tests of another source folder do not count for this one.
        if self.source.as_slice() != source {
            self.source = Vec::from_slice(self.alloc, source)?;
            self.asked.clear();
        }
        if self.asked.contains(folder) {
            return Ok(());
        }
        // The paths of the probe before and after its rename.
        let probe = below(self.alloc, folder, PROBE)?;
        let moved = below(self.alloc, source, PROBE)?;
        try_rename(rt, &probe, &moved)?;
        keep(self.alloc, &mut self.asked, folder)
    }
}

/// Whether a path is reserved for the program: it is in the lock's folder or is this folder, or one
/// of its parts is the name of the probe.
fn is_reserved(path: &[u8]) -> bool {
    for (i, part) in path.split(is_slash).enumerate() {
        if part == PROBE || (i == 0 && part == LOCK_FOLDER.as_bytes()) {
            return true;
        }
    }
    false
}

/// Tests whether the host allows names as long as each of these parts of a path. `parts` is what
/// follows the existing folder `folder` in the path; each part is looked up in this folder.
fn check_parts<R: Files>(
    rt: &R,
    alloc: Global,
    folder: &[u8],
    parts: &[u8],
) -> Result<(), HostFault> {
    for part in parts.split(is_slash) {
        if part.is_empty() {
            continue;
        }
        match fs::symlink_metadata(rt, path_text(&below(alloc, folder, part)?)?) {
            Err(e) if e.kind() == ErrorKind::InvalidFilename => return Err(e.into()),
            _ => {}
        }
    }
    Ok(())
}

/// Tests whether the host allows a name as long as the last part of a path, and whether a file can
/// replace what is at the path: a regular file that may be removed, or a folder. Regular files
/// below this folder are no fault of this test.
fn check_place<R: Host>(rt: &R, alloc: Global, path: &[u8]) -> Result<(), HostFault> {
    match look_to_write(rt, alloc, path)? {
        Found::Nothing => Ok(()),
        Found::File(_) => check_removal(rt, path),
        Found::Folder => check_folders_below(rt, alloc, path),
    }
}

/// Returns Ok if the host will let the file at a path be removed, or if there is no file.
pub fn check_remove<R: Host>(
    rt: &R,
    alloc: Global,
    folders: &mut Folders,
    path: &[u8],
) -> Result<(), HostFault> {
    if folders.deepest_known_folder(rt, path)? != parent_of(path) {
        return Ok(());
    }
    match look_at(rt, alloc, path)? {
        Found::File(_) => check_removal(rt, path),
        Found::Nothing | Found::Folder => Ok(()),
    }
}

/// Tests whether the host will let the regular file at a path be removed or replaced. The test asks
/// the host to remove a folder at this path. The host first checks the user's rights, and then
/// refuses since the file is no folder; so the file is not removed.
fn check_removal<R: Files>(rt: &R, path: &[u8]) -> Result<(), HostFault> {
    match fs::remove_dir(rt, path_text(path)?) {
        Ok(()) => Ok(()),
        // The rights suffice: the host refuses only since the file is no folder.
        Err(e) if e.kind() == ErrorKind::NotADirectory => Ok(()),
        Err(e) => Err(e.into()),
    }
}

/// Tests whether a file can replace the folder at a path: this folder and all below it are on the
/// file system of their parent, and contain only folders and regular files.
fn check_folders_below<R: Host>(rt: &R, alloc: Global, path: &[u8]) -> Result<(), HostFault> {
    // The device (file system) of the parent.
    let around = device_of(rt, parent_of(path))?;
    // The folders that are still to be tested.
    let mut folders = Vec::new(alloc);
    push(alloc, &mut folders, path)?;
    // The loop ends when no folder is left; the bound shows the checker that it ends.
    for _ in 0..u64::MAX {
        let Some(folder) = folders.pop() else {
            break;
        };
        if device_of(rt, &folder)? != around {
            return Err(HostFault::at(alloc, Reason::OtherFileSystem, &folder));
        }
        push_folders(rt, alloc, &folder, Contents::FoldersAndFiles, &mut folders)?;
    }
    Ok(())
}

/// The host's number of the device (file system) that a folder is on. The root is the empty path.
fn device_of<R: Files>(rt: &R, folder: &[u8]) -> Result<u64, HostFault> {
    let folder: &[u8] = if folder.is_empty() { b"." } else { folder };
    Ok(fs::symlink_metadata(rt, path_text(folder)?)?.dev())
}

/// Makes the probe at the path `probe`, renames it to the path `moved`, and removes it there. If
/// the rename fails, the probe is removed at its first path.
fn try_rename<R: Files>(rt: &R, probe: &[u8], moved: &[u8]) -> Result<(), HostFault> {
    let probe = path_text(probe)?;
    let moved = path_text(moved)?;
    make_probe(rt, probe)?;
    // If both paths are the same, there is nothing to rename.
    if probe != moved
        && let Err(e) = fs::rename(rt, probe, moved)
    {
        let _ = fs::remove_dir(rt, probe);
        if e.kind() == ErrorKind::CrossesDevices {
            return Err(HostFault::own(Reason::OtherFileSystem));
        }
        return Err(e.into());
    }
    Ok(fs::remove_dir(rt, moved)?)
}

/// Makes the probe at this path. A probe that a killed run has left is removed first.
fn make_probe<R: Files>(rt: &R, probe: &str) -> Result<(), HostFault> {
    match fs::create_dir(rt, probe) {
        Err(e) if e.kind() == ErrorKind::AlreadyExists => {
            fs::remove_dir(rt, probe)?;
            Ok(fs::create_dir(rt, probe)?)
        }
        Ok(()) => Ok(()),
        Err(e) => Err(e.into()),
    }
}

/// The path of a file or folder in `folder`, given the last part of its path. The root is the empty
/// path.
fn below(alloc: Global, folder: &[u8], part: &[u8]) -> Result<Vec<u8>, HostFault> {
    let mut path = Vec::from_slice(alloc, folder)?;
    if !folder.is_empty() {
        path.extend_from_slice(b"/")?;
    }
    path.extend_from_slice(part)?;
    Ok(path)
}
