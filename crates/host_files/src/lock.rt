//! The lock on the root, with which either one run may write in the root, or several runs may read.
//! The rules are in `docs/crash-safety.md`, "What the host's tree does", part "Locks".

use super::Host;
use super::failure::{HostFault, Reason};
use super::found::is_same;
use std::fs::{DirBuilder, File, OpenFile, Permissions, TryLockError};
use std::io::ErrorKind;
use std::os::unix::fs::{DirBuilderExt, MetadataExt, PermissionsExt, lchown};
use std::time::{Duration, Instant};
use std::{fs, io, thread};

/// The folder below the root on which the lock is taken. The first of several simultaneous runs
/// makes this folder, and the last one removes it.
pub const LOCK_FOLDER: &str = ".apk-lock";

/// Which lock a run takes: who else may work in the root at the same time.
#[derive(Clone, Copy)]
pub enum Lock {
    /// Other runs with a shared lock may work at the same time.
    Shared,
    /// No other run may work at the same time.
    Exclusive,
}

/// The length of one sleep, in milliseconds, while another run holds the lock.
const SLEEP_MILLISECONDS: u64 = 50;

/// How long a run waits for another one, in seconds.
const MOST_SECONDS: u64 = 60;

/// The number of seconds after which the run prints on standard error that it waits.
const SILENT_SECONDS: u64 = 1;

/// A lock on the root that this run holds, as long as the locked folder is open.
#[derive(Drop)]
pub struct Held {
    /// The locked folder: the lock's folder (`LOCK_FOLDER`), or the root.
    folder: File,
    /// Whether the run may write: the lock excludes other runs that write, as far as the users'
    /// rights allow this.
    may_write: bool,
}

impl Held {
    /// Whether the run may write with this lock.
    pub fn may_write(&self) -> bool {
        self.may_write
    }
}

/// The result of one try to take the lock.
#[derive(Drop)]
enum Try {
    /// This run holds the lock now.
    Held(Held),
    /// Another run holds a conflicting lock.
    Taken,
    /// The lock's folder was made or removed meanwhile: the next try may succeed.
    Changed,
}

/// Takes the lock on the root. If another run holds a conflicting lock, this run waits up to 60
/// seconds, and prints once that it waits. After this time the call fails.
pub fn lock_root<R: Host>(rt: &R, lock: Lock) -> Result<Held, HostFault> {
    let start = Instant::now(rt)?;
    // Whether this run has not yet printed that it waits.
    let mut silent = true;
    // The clock ends the loop; the bound shows the checker that the loop ends.
    for _ in 0..u64::MAX {
        match try_lock_root(rt, lock)? {
            Try::Held(held) => return Ok(held),
            Try::Taken => {
                if silent && start.elapsed(rt)?.as_secs() >= SILENT_SECONDS {
                    silent = false;
                    let _ = rt.eprintln("apk: waits for another run in this folder");
                }
                thread::sleep(rt, Duration::from_millis(SLEEP_MILLISECONDS));
            }
            Try::Changed => {}
        }
        if start.elapsed(rt)?.as_secs() >= MOST_SECONDS {
            break;
        }
    }
    Err(HostFault::own(Reason::Locked))
}

/// Tries to take the lock. A run that may not open the lock's folder, or cannot make it, locks the
/// root itself, which excludes only other such runs.
fn try_lock_root<R: Host>(rt: &R, lock: Lock) -> Result<Try, HostFault> {
    match fs::open(rt, LOCK_FOLDER) {
        Ok(folder) => try_lock_folder(rt, folder, lock),
        Err(e) if e.kind() == ErrorKind::NotFound => match make_lock_folder(rt) {
            // The lock's folder was made here, and the next try locks it.
            Ok(()) => Ok(Try::Changed),
            // Another run has made it meanwhile.
            Err(e) if e.kind() == ErrorKind::AlreadyExists => see_lock_folder(rt),
            // The lock's folder cannot be made, so the root itself is locked. This run may write
            // only if the reason for this lasts.
            Err(e) => try_lock(fs::open(rt, ".")?, lock, is_lasting(e.kind())),
        },
        // The user has no right to open the lock's folder, so the root itself is locked.
        Err(e) if e.kind() == ErrorKind::PermissionDenied => {
            // `true`: with this lock, the run may write.
            try_lock(fs::open(rt, ".")?, lock, true)
        }
        Err(e) => Err(HostFault::host_at(rt.alloc(), e, LOCK_FOLDER.as_bytes())),
    }
}

/// Whether the reason why the lock's folder cannot be made lasts during this run: the user may not
/// write in the root. Any other reason, such as a full disk, may end during this run. Another run
/// could then make and lock the folder, so this run may only read.
fn is_lasting(kind: ErrorKind) -> bool {
    matches!(
        kind,
        ErrorKind::PermissionDenied | ErrorKind::ReadOnlyFilesystem
    )
}

/// Looks at the path of the lock's folder after a try that failed. If something there is no folder,
/// this is a fault; otherwise the result is `Changed`, after which the lock is tried again.
fn see_lock_folder<R: Host>(rt: &R) -> Result<Try, HostFault> {
    match fs::symlink_metadata(rt, LOCK_FOLDER) {
        Ok(found) if !found.is_dir() => Err(HostFault::at(
            rt.alloc(),
            Reason::NoFolder,
            LOCK_FOLDER.as_bytes(),
        )),
        _ => Ok(Try::Changed),
    }
}

/// Tries to lock the lock's folder, which is open. If it was removed or replaced since it was
/// opened, the lock does not count.
fn try_lock_folder<R: Host>(rt: &R, folder: File, lock: Lock) -> Result<Try, HostFault> {
    let opened = folder.metadata()?;
    // `true`: with the lock on the lock's folder, this run may write.
    let tried = try_lock(folder, lock, true)?;
    match fs::symlink_metadata(rt, LOCK_FOLDER) {
        Ok(found) if found.is_dir() && is_same(&found, &opened) => Ok(tried),
        // The open folder is not the lock's folder any more.
        _ => see_lock_folder(rt),
    }
}

/// Takes the lock on an open folder, or returns `Taken` at once if another run holds a conflicting
/// lock. `may_write` says whether this run may write with the lock.
fn try_lock(folder: File, lock: Lock, may_write: bool) -> Result<Try, HostFault> {
    let tried = match lock {
        Lock::Shared => folder.try_lock_shared(),
        Lock::Exclusive => folder.try_lock(),
    };
    match tried {
        Ok(()) => Ok(Try::Held(Held { folder, may_write })),
        Err(TryLockError::WouldBlock) => Ok(Try::Taken),
        Err(TryLockError::Error(e)) => Err(e.into()),
    }
}

/// Makes the lock's folder so that exactly those users can open the folder who may change the root:
/// it has the root's owner and group, and whoever may write in the root has all rights on it.
fn make_lock_folder<R: Host>(rt: &R) -> io::Result<()> {
    let root = fs::symlink_metadata(rt, ".")?;
    let mode = lock_mode(root.mode());
    DirBuilder::new().mode(mode).create(rt, LOCK_FOLDER)?;
    // Failures are ignored: what this user may not set stays as the host has made it.
    let _ = lchown(rt, LOCK_FOLDER, None, Some(root.gid()));
    let _ = lchown(rt, LOCK_FOLDER, Some(root.uid()), None);
    let _ = fs::set_permissions(rt, LOCK_FOLDER, Permissions::from_mode(mode));
    Ok(())
}

/// The mode of the lock's folder in a root of this mode: all rights for those who may write in the
/// root, and none for others.
fn lock_mode(root: u32) -> u32 {
    // The rights of the root's group, and of all other users.
    let group = if root & 0o020 == 0 { 0 } else { 0o070 };
    let others = if root & 0o002 == 0 { 0 } else { 0o007 };
    0o700 | group | others
}

/// Prepares the end of a lock, which is released when the locked folder is closed. The last run
/// that holds a lock removes the lock's folder. A killed run leaves this folder, and the next run
/// uses it.
pub fn unlock_root<R: Host>(rt: &R, held: &Held) {
    let folder = &held.folder;
    let (Ok(found), Ok(opened)) = (fs::symlink_metadata(rt, LOCK_FOLDER), folder.metadata()) else {
        return;
    };
    // If no other run holds a lock on the folder, a shared lock becomes exclusive here.
    if is_same(&found, &opened) && folder.try_lock().is_ok() {
        let _ = fs::remove_dir(rt, LOCK_FOLDER);
    }
}
