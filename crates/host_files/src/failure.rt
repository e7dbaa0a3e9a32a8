//! Why a call on the host fails, and the line that the program prints of the first failed call. The
//! rules are in `docs/commands.md`, "A fault of the tree".

use std::alloc::{AllocError, Global};
use std::io;
use std::io::{ErrorKind, Write};

/// A reason, in the program's own words, why a call fails. Other errors of the host are printed
/// with the host's text.
#[derive(Clone, Copy)]
pub enum Reason {
    /// A path is a symbolic link, which is never followed.
    Link,
    /// There is a pipe, a device or a socket at a path.
    Special,
    /// There is a folder in the place of a file.
    Folder,
    /// There is a file in the place of a folder.
    NoFolder,
    /// There is nothing at a path.
    Nothing,
    /// A file ends before the last byte that is to be read.
    EndsEarly,
    /// The opened file is not the one that was found before.
    Swapped,
    /// A path is no name of a file.
    NoName,
    /// An earlier sync failed, so that the host may have lost a write.
    LostWrite,
    /// Another run of this program works in the folder.
    Locked,
    /// The folder of the lock cannot be made, so that this run may not write.
    NoLockFolder,
    /// Both names of a rename are the same.
    SameName,
    /// A file cannot be renamed to a path, since another file system is mounted there.
    OtherFileSystem,
    /// A path is reserved for the program itself, for its lock and for tests of the host.
    Reserved,
}

impl Reason {
    /// The reason as it is printed, after the paths of the call: `apk: CALL PATH: REASON`.
    pub fn text(self) -> &'static str {
        match self {
            Reason::Link => "Is a symbolic link",
            Reason::Special => "Is neither a file nor a directory",
            Reason::Folder => "Is a directory",
            Reason::NoFolder => "Not a directory",
            Reason::Nothing => "No such file or directory",
            Reason::EndsEarly => "Ends too early",
            Reason::Swapped => "Was another file a moment ago",
            Reason::NoName => "Is no name of a file",
            Reason::LostWrite => "An earlier write was lost",
            Reason::Locked => "Another run holds this folder",
            Reason::NoLockFolder => "Cannot be made",
            Reason::SameName => "Already has this name",
            Reason::OtherFileSystem => "Is on another file system",
            Reason::Reserved => "Is a name of the program's own",
        }
    }
}

/// Why something on the host fails.
#[derive(Drop)]
pub enum HostFault {
    /// The program or the host was out of memory.
    Memory,
    /// An error of the host, and the path `at` that the error concerns, if this is not the path of
    /// the call.
    Host {
        error: io::Error,
        at: Option<Vec<u8>>,
    },
    /// A reason of this program, and the path `at` that the reason concerns, if this is not the
    /// path of the call.
    Own {
        reason: Reason,
        at: Option<Vec<u8>>,
    },
}

impl HostFault {
    /// The fault with a reason of this program that concerns the path of the call.
    pub fn own(reason: Reason) -> HostFault {
        HostFault::Own { reason, at: None }
    }

    /// The fault with a reason of this program that concerns this path. If there is no memory for
    /// the path, it is left out.
    pub fn at(alloc: Global, reason: Reason, path: &[u8]) -> HostFault {
        HostFault::Own {
            reason,
            at: Vec::from_slice(alloc, path).ok(),
        }
    }

    /// The fault with an error of the host that concerns this path. If there is no memory for the
    /// path, it is left out.
    pub fn host_at(alloc: Global, error: io::Error, path: &[u8]) -> HostFault {
        if error.kind() == ErrorKind::OutOfMemory {
            return HostFault::Memory;
        }
        HostFault::Host {
            error,
            at: Vec::from_slice(alloc, path).ok(),
        }
    }
}

impl From<AllocError> for HostFault {
    /// The fault of a call that is out of memory.
    fn from(_: AllocError) -> HostFault {
        HostFault::Memory
    }
}

impl From<io::Error> for HostFault {
    /// The host's error; if the host is out of memory, this is reported as out of memory.
    fn from(error: io::Error) -> HostFault {
        if error.kind() == ErrorKind::OutOfMemory {
            return HostFault::Memory;
        }
        HostFault::Host { error, at: None }
    }
}

/// The first call on the tree that failed, the paths that this call was given, and why it failed.
#[derive(Drop)]
pub struct Failure {
    // The name of the call that is printed, such as `rename`.
    call: &'static str,
    // The path that the call was given; empty if there is none to print.
    path: Vec<u8>,
    // The second path of a rename; empty for other calls.
    target: Vec<u8>,
    // Why the call failed.
    fault: HostFault,
}

impl Failure {
    /// The failure of a call on a path. `target` is the second path of a rename, and empty for
    /// other calls. If there is no memory for a path, it is left out.
    pub fn new(
        alloc: Global,
        call: &'static str,
        path: &[u8],
        target: &[u8],
        fault: HostFault,
    ) -> Failure {
        Failure {
            call,
            path: copy_or_empty(alloc, path),
            target: copy_or_empty(alloc, target),
            fault,
        }
    }

    /// Prints one line: `apk: CALL PATH: REASON`, or `apk: CALL PATH to TARGET: REASON`. If a write
    /// fails, nothing more is printed.
    pub fn print<W: Write>(&self, alloc: Global, to: &mut W) -> io::Result<()> {
        to.write_all(b"apk: ")?;
        to.write_all(self.call.as_bytes())?;
        if !self.path.is_empty() {
            to.write_all(b" ")?;
            write_path(&self.path, to)?;
        }
        if !self.target.is_empty() {
            to.write_all(b" to ")?;
            write_path(&self.target, to)?;
        }
        to.write_all(b": ")?;
        self.print_reason(alloc, to)?;
        to.write_all(b"\n")
    }

    /// Prints why the call failed. If the reason concerns another path than those of the call, this
    /// path is printed first.
    fn print_reason<W: Write>(&self, alloc: Global, to: &mut W) -> io::Result<()> {
        // The path that the reason concerns, if this is not the path of the call.
        let at = match &self.fault {
            HostFault::Memory => None,
            HostFault::Host { at, .. } | HostFault::Own { at, .. } => at.as_ref(),
        };
        if let Some(at) = at
            && at.as_slice() != self.path.as_slice()
            && at.as_slice() != self.target.as_slice()
        {
            write_path(at, to)?;
            to.write_all(b": ")?;
        }
        match &self.fault {
            HostFault::Memory => to.write_all(b"Cannot allocate memory"),
            HostFault::Host { error, .. } => print_host_reason(alloc, error, to),
            HostFault::Own { reason, .. } => to.write_all(reason.text().as_bytes()),
        }
    }
}

/// Prints a path. Bytes that would act on a terminal, those below 0x20 and 0x7f, are printed as
/// `\x` and two digits.
pub fn write_path<W: Write>(path: &[u8], to: &mut W) -> io::Result<()> {
    // Each part of the path ends with such a byte, except perhaps the last one.
    for piece in path.split_inclusive(acts_on_terminal) {
        match piece.split_last() {
            Some((last, before)) if acts_on_terminal(last) => {
                to.write_all(before)?;
                to.write_all(&[b'\\', b'x', hex_digit(*last >> 4), hex_digit(*last & 15)])?;
            }
            _ => to.write_all(piece)?,
        }
    }
    Ok(())
}

/// Whether a byte is a control character, which could change what a terminal shows.
fn acts_on_terminal(byte: &u8) -> bool {
    *byte < 0x20 || *byte == 0x7f
}

/// The hexadecimal digit of a number below 16.
fn hex_digit(n: u8) -> u8 {
    match n {
        0..=9 => b'0' + n,
        // 10 is `a`, 11 is `b`, and so on.
        _ => (b'a' - 10).wrapping_add(n),
    }
}

/// Prints the host's text for its error, without the error's number.
fn print_host_reason<W: Write>(alloc: Global, error: &io::Error, to: &mut W) -> io::Result<()> {
    let Ok(text) = format!(in alloc; "{error}") else {
        return to.write_all(b"Unknown error");
    };
    let text = text.as_str();
    match text.find(" (os error ") {
        Some(end) => to.write_all(text.as_bytes().get(..end).unwrap_or(b"Unknown error")),
        None => to.write_all(text.as_bytes()),
    }
}

/// A copy of a path. A failure report must not fail itself, so the copy is empty if there is no
/// memory.
fn copy_or_empty(alloc: Global, path: &[u8]) -> Vec<u8> {
    match Vec::from_slice(alloc, path) {
        Ok(copy) => copy,
        Err(_) => Vec::new(alloc),
    }
}
