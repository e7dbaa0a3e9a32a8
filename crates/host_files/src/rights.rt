//! Mode and owner of files: those of new files and folders, and those that a new file takes over
//! from the file that it replaces. The rules are in `docs/crash-safety.md`, "What the host's tree
//! does", part "Modes and owners".

use super::failure::HostFault;
use super::found::path_text;
use std::fs::{Files, Metadata, OpenFile, Permissions};
use std::io::ErrorKind;
use std::os::unix::fs::{MetadataExt, PermissionsExt, lchown};
use std::{fs, io};

/// The mode of a new file, before the umask takes bits away.
pub const FILE_MODE: u32 = 0o644;

/// The mode of a new folder, before the umask takes bits away.
pub const FOLDER_MODE: u32 = 0o755;

/// The bits of a mode that a program may set: the rights of the owner, the group and the others,
/// and the bits setuid, setgid and sticky.
const ALL_BITS: u32 = 0o7777;

/// The bits of a mode by which the owner, the group and the others may execute the file.
const EXECUTE_BITS: u32 = 0o111;

/// The bits of a mode with the rights of the owner, the group and the others.
const RIGHTS_BITS: u32 = 0o777;

/// The bits of a mode by which the owner may read and write the file.
const OWNER_BITS: u32 = 0o600;

/// The mode and the owner of a file.
#[derive(Clone, Copy, PartialEq, Eq)]
pub struct Rights {
    // The bits of the mode that a program may set.
    mode: u32,
    // The number of the user who owns the file.
    user: u32,
    // The number of the group that the file belongs to.
    group: u32,
}

impl Rights {
    /// The mode and the owner that the host reports.
    pub fn of(data: &Metadata) -> Rights {
        Rights {
            mode: data.mode() & ALL_BITS,
            user: data.uid(),
            group: data.gid(),
        }
    }

    /// Whether anybody may execute the file.
    pub fn may_execute(&self) -> bool {
        self.mode & EXECUTE_BITS != 0
    }

    /// Changes the rights of the file at a path from `self` to `wanted`, as far as the caller may.
    /// Then the rights are synced, even if they were equal. If the caller may not change the owner,
    /// the file does not get the bits that let a program run with the owner's rights.
    ///
    /// # Errors
    ///
    /// The host's error, if the host did not sync the rights.
    pub fn change_to<R: Files>(
        &self,
        rt: &R,
        path: &[u8],
        wanted: Rights,
    ) -> Result<(), HostFault> {
        let path = path_text(path)?;
        // The file is opened before its mode changes, since the new mode may not allow to open it.
        let file = open_to_sync(rt, path)?;
        let has_owner = self.user == wanted.user && self.group == wanted.group;
        // Whether the file has the wanted owner now, and which bits of the mode are then set.
        let is_given = has_owner || give_away(rt, path, wanted);
        let kept = if is_given { ALL_BITS } else { RIGHTS_BITS };
        // A file system without modes refuses this. Its files have no mode to set, so the error is
        // ignored.
        let _ = fs::set_permissions(rt, path, Permissions::from_mode(wanted.mode & kept));
        Ok(file.sync_all()?)
    }
}

/// Opens a file in order to sync it. If its mode does not let even the owner read it, as an umask
/// may cause, the file first gets the mode 600.
fn open_to_sync<R: Files>(rt: &R, path: &str) -> io::Result<R::File> {
    match fs::open(rt, path) {
        Err(e) if e.kind() == ErrorKind::PermissionDenied => {
            fs::set_permissions(rt, path, Permissions::from_mode(OWNER_BITS))?;
            fs::open(rt, path)
        }
        opened => opened,
    }
}

/// Sets the user and the group of a file to the wanted ones, or the group alone if the caller may
/// not set the user. Returns whether both were set.
fn give_away<R: Files>(rt: &R, path: &str, wanted: Rights) -> bool {
    if lchown(rt, path, Some(wanted.user), Some(wanted.group)).is_ok() {
        return true;
    }
    let _ = lchown(rt, path, None, Some(wanted.group));
    false
}
