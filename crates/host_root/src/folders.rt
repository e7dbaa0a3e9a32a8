//! The folders below the root: finds and makes the folders above a file, removes folders without
//! files, and syncs the folders in which names changed. `root` and `targets` use it. The rules are
//! in `docs/crash-safety.md`, "What the host's tree does", parts "Folders" and "Syncs".

use host_files::{
    FOLDER_MODE, Found, Host, HostFault, LastFolder, Reason, look, parent_of, path_text,
};
use std::alloc::Global;
use std::collections::BTreeSet;
use std::fs;
use std::fs::{DirBuilder, Files, OpenFile};
use std::io::ErrorKind;
use std::os::unix::fs::DirBuilderExt;

/// The folders below the root that this run has found, made or changed. Only this run writes there,
/// so a folder that it has found once is still there.
#[derive(Drop)]
pub struct Folders {
    // Where memory is taken.
    alloc: Global,
    // The folders that this run has found or made.
    known: BTreeSet<Vec<u8>>,
    // The folder of the path that was used last, which is a known folder or the root. If this
    // folder is deep, it may be open, so that the host gets shorter paths to its files.
    last: LastFolder,
    // The noted folders: names in them changed or will change, and the next sync of the names syncs
    // them.
    changed: BTreeSet<Vec<u8>>,
    // The folders that `note_way` has noted together with all folders above them.
    ways: BTreeSet<Vec<u8>>,
}

impl Folders {
    /// The state before the first call: no folder is known, and no folder has changed names.
    pub fn new(alloc: Global) -> Folders {
        Folders {
            alloc,
            known: BTreeSet::new(alloc),
            last: LastFolder::new(Vec::new(alloc)),
            changed: BTreeSet::new(alloc),
            ways: BTreeSet::new(alloc),
        }
    }

    /// The deepest existing folder above a path, as a prefix of the path; the root is the empty
    /// prefix. The search ends at the first part of the path that is no folder. Each folder above
    /// the path that is found is then known.
    pub fn deepest_known_folder<'p, R: Files>(
        &mut self,
        rt: &R,
        path: &'p [u8],
    ) -> Result<&'p [u8], HostFault> {
        if self.knows_folders(path)? {
            return Ok(parent_of(path));
        }
        // The deepest folder found so far. Each slash of the path ends the path of a folder.
        let mut folder: &'p [u8] = &[];
        for (i, byte) in path.iter().enumerate() {
            if *byte == b'/' {
                if !self.has(rt, &path[..i])? {
                    break;
                }
                folder = &path[..i];
            }
        }
        Ok(folder)
    }

    /// What is at a path: nothing if a folder above the path is missing.
    pub fn find<R: Host>(&mut self, rt: &R, path: &[u8]) -> Result<Found, HostFault> {
        if self.deepest_known_folder(rt, path)? != parent_of(path) {
            return Ok(Found::Nothing);
        }
        let alloc = self.alloc;
        look(rt, alloc, path, self.host_path(rt, path)?)
    }

    /// The path that is given to the host for `path`: a shorter path if the folder of `path` is the
    /// one that was used last and is open, else `path` itself.
    pub fn host_path<'b, R: Host>(
        &'b mut self,
        rt: &R,
        path: &'b [u8],
    ) -> Result<&'b str, HostFault> {
        let folder = parent_of(path);
        if folder.is_empty() || !self.last.is(folder) {
            return path_text(path);
        }
        self.last.host_path(rt, self.alloc, path)
    }

    /// Remembers that there is a folder at a path, so that the host is not asked for it again.
    pub fn keep_known(&mut self, folder: &[u8]) -> Result<(), HostFault> {
        keep(self.alloc, &mut self.known, folder)
    }

    /// Notes a folder in which names will change, so that the next sync of the names syncs it. A
    /// folder is noted before its names change, so that no change is left unsynced.
    pub fn note(&mut self, folder: &[u8]) -> Result<(), HostFault> {
        if self.changed.contains(folder) {
            return Ok(());
        }
        keep(self.alloc, &mut self.changed, folder)
    }

    /// Notes the root and each existing folder above a path for the next sync of the names, since
    /// an earlier run may have changed names in them without syncing them. For paths in the same
    /// folder this is done once.
    pub fn note_way<R: Files>(&mut self, rt: &R, path: &[u8]) -> Result<(), HostFault> {
        // The folder that contains the path.
        let around = parent_of(path);
        if self.ways.contains(around) {
            return Ok(());
        }
        self.note(&[])?;
        for (i, byte) in path.iter().enumerate() {
            if *byte == b'/' {
                if !self.has(rt, &path[..i])? {
                    break;
                }
                self.note(&path[..i])?;
            }
        }
        keep(self.alloc, &mut self.ways, around)
    }

    /// Prepares a path for a file: makes the missing folders above the path, and removes a folder
    /// at the path if only folders are below it. A file in the place of a folder above the path is
    /// a fault. Returns what was found at the path.
    pub fn make_room<R: Host>(&mut self, rt: &R, path: &[u8]) -> Result<Found, HostFault> {
        if !self.knows_folders(path)? {
            for (i, byte) in path.iter().enumerate() {
                if *byte == b'/' {
                    self.make_if_absent(rt, &path[..i])?;
                }
            }
        }
        let found = look_at(rt, self.alloc, path)?;
        if found.is_folder() {
            self.remove_folders_at(rt, path)?;
        }
        Ok(found)
    }

    /// Removes the folder at the path of a new file, and the folders below it. Notes their parents
    /// for the next sync of the names. If there is anything but folders below the folder, this is a
    /// fault, and nothing is removed.
    fn remove_folders_at<R: Host>(&mut self, rt: &R, path: &[u8]) -> Result<(), HostFault> {
        let folders = empty_tree(rt, self.alloc, path)?;
        // In reverse order, each folder is removed after the folders in it.
        for folder in folders.iter().rev() {
            self.note(parent_of(folder))?;
            fs::remove_dir(rt, path_text(folder)?)?;
            self.forget(folder);
        }
        Ok(())
    }

    /// Removes the empty folders above a path whose file was removed, the deepest first, and never
    /// the root. The removal ends at the first folder that is not empty.
    pub fn prune<R: Files>(&mut self, rt: &R, path: &[u8]) -> Result<(), HostFault> {
        for i in (0..path.len()).rev() {
            if path[i] != b'/' {
                continue;
            }
            let folder = &path[..i];
            // The parent of the folder, which is noted before the removal.
            let around = parent_of(folder);
            let was_noted = self.changed.contains(around);
            self.note(around)?;
            let is_gone = match fs::remove_dir(rt, path_text(folder)?) {
                Ok(()) => {
                    self.forget(folder);
                    continue;
                }
                Err(e) if is_absent(e.kind()) => true,
                Err(e) if keeps_folder(e.kind()) => false,
                Err(e) => return Err(e.into()),
            };
            // No name in the parent (`around`) changed, so the parent stays noted only if it was
            // before.
            if !was_noted {
                self.changed.remove(around);
            }
            if !is_gone {
                break;
            }
        }
        Ok(())
    }

    /// Syncs each folder that was noted since the last sync, so that the names in it survive a
    /// crash.
    pub fn write_through<R: Files>(&mut self, rt: &R) -> Result<(), HostFault> {
        for folder in &self.changed {
            // The root is the empty path.
            let path: &[u8] = if folder.is_empty() { b"." } else { folder };
            fs::open(rt, path_text(path)?)?.sync_all()?;
        }
        self.changed.clear();
        Ok(())
    }

    /// Whether the folder that contains a path is known, or is the root. If so, it becomes the
    /// folder that was used last.
    fn knows_folders(&mut self, path: &[u8]) -> Result<bool, HostFault> {
        let folder = parent_of(path);
        if self.last.is(folder) {
            return Ok(true);
        }
        if !folder.is_empty() && !self.known.contains(folder) {
            return Ok(false);
        }
        self.last = LastFolder::new(Vec::from_slice(self.alloc, folder)?);
        Ok(true)
    }

    /// Whether there is a folder at a path. A folder that is found is then known.
    fn has<R: Files>(&mut self, rt: &R, path: &[u8]) -> Result<bool, HostFault> {
        if self.known.contains(path) {
            return Ok(true);
        }
        if !look_at(rt, self.alloc, path)?.is_folder() {
            return Ok(false);
        }
        self.keep_known(path)?;
        Ok(true)
    }

    /// Makes a folder if it is absent; its parent is noted before for the next sync of the names. A
    /// file at the path of the folder is a fault.
    fn make_if_absent<R: Files>(&mut self, rt: &R, folder: &[u8]) -> Result<(), HostFault> {
        if self.known.contains(folder) {
            return Ok(());
        }
        match look_at(rt, self.alloc, folder)? {
            Found::Folder => {}
            Found::File(_) => return Err(HostFault::at(self.alloc, Reason::NoFolder, folder)),
            Found::Nothing => {
                self.note(parent_of(folder))?;
                DirBuilder::new()
                    .mode(FOLDER_MODE)
                    .create(rt, path_text(folder)?)?;
            }
        }
        self.keep_known(folder)
    }

    /// Forgets a removed folder: it is no longer known, and no longer noted for the next sync.
    fn forget(&mut self, folder: &[u8]) {
        self.known.remove(folder);
        self.changed.remove(folder);
        if self.last.is(folder) {
            self.last = LastFolder::new(Vec::new(self.alloc));
        }
    }
}

/// What is at a path. The host is given the path itself, not a shorter one. A symbolic link is a
/// fault.
pub fn look_at<R: Files>(rt: &R, alloc: Global, path: &[u8]) -> Result<Found, HostFault> {
    look(rt, alloc, path, path_text(path)?)
}

/// Adds a folder to a set of folders. If out of memory, the set is unchanged.
pub fn keep(
    alloc: Global,
    folders: &mut BTreeSet<Vec<u8>>,
    folder: &[u8],
) -> Result<(), HostFault> {
    match folders.insert(Vec::from_slice(alloc, folder)?) {
        Ok(_) => Ok(()),
        Err(_) => Err(HostFault::Memory),
    }
}

/// The folder `root` and all folders below it, each after its parent. Anything below it that is no
/// folder is a fault.
fn empty_tree<R: Host>(rt: &R, alloc: Global, root: &[u8]) -> Result<Vec<Vec<u8>>, HostFault> {
    let mut folders = Vec::new(alloc);
    push(alloc, &mut folders, root)?;
    // The list grows during this loop: each folder adds the folders in it. The bound shows the
    // checker that the loop ends.
    for next in 0..usize::MAX {
        if next >= folders.len() {
            break;
        }
        let folder = Vec::from_slice(alloc, &folders[next])?;
        push_folders(rt, alloc, &folder, Contents::Folders, &mut folders)?;
    }
    Ok(folders)
}

/// What a folder may contain without a fault.
#[derive(Clone, Copy)]
pub enum Contents {
    /// Folders alone.
    Folders,
    /// Folders and regular files.
    FoldersAndFiles,
}

/// Adds the paths of the folders directly in `folder` to `folders`. If `folder` contains anything
/// that `contents` does not allow, this is a fault.
pub fn push_folders<R: Host>(
    rt: &R,
    alloc: Global,
    folder: &[u8],
    contents: Contents,
    folders: &mut Vec<Vec<u8>>,
) -> Result<(), HostFault> {
    for entry in fs::read_dir(rt, path_text(folder)?)? {
        let entry = entry?;
        push_folder(
            rt,
            alloc,
            entry.path().as_str().as_bytes(),
            contents,
            folders,
        )?;
    }
    Ok(())
}

/// Adds a path to `folders` if a folder is at the path. A regular file at the path is a fault,
/// unless `contents` allows files.
fn push_folder<R: Files>(
    rt: &R,
    alloc: Global,
    path: &[u8],
    contents: Contents,
    folders: &mut Vec<Vec<u8>>,
) -> Result<(), HostFault> {
    if look_at(rt, alloc, path)?.is_folder() {
        return push(alloc, folders, path);
    }
    match contents {
        Contents::Folders => Err(HostFault::own(Reason::Folder)),
        Contents::FoldersAndFiles => Ok(()),
    }
}

/// Appends a copy of a path to a list.
pub fn push(alloc: Global, list: &mut Vec<Vec<u8>>, path: &[u8]) -> Result<(), HostFault> {
    match list.push(Vec::from_slice(alloc, path)?) {
        Ok(()) => Ok(()),
        Err(_) => Err(HostFault::Memory),
    }
}

/// Whether this kind of error, of a removal of a folder, says that there is no such folder: a
/// killed run may have removed it.
fn is_absent(kind: ErrorKind) -> bool {
    matches!(kind, ErrorKind::NotFound | ErrorKind::NotADirectory)
}

/// Whether this kind of error, of a removal of a folder, says that the folder is to stay: it is not
/// empty, it is a mount point, or the user may not write in its parent. The host may report the
/// latter before it tests whether the folder is empty.
fn keeps_folder(kind: ErrorKind) -> bool {
    matches!(
        kind,
        ErrorKind::DirectoryNotEmpty
            | ErrorKind::AlreadyExists
            | ErrorKind::ResourceBusy
            | ErrorKind::PermissionDenied
            | ErrorKind::ReadOnlyFilesystem
    )
}
