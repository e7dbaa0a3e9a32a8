//! What a run gets from its process: the arguments of the command line, its stack, and the standard
//! streams as sinks. The rules are in `docs/commands.md`, "Answers and statuses".

ghost use Rattle.std.specs.Prelude.{◌≤◌, IfOk, IfSome, ◌≡◌, ◌<◌, None, length};
ghost use Rattle.std.specs.Vec.{vec_len};
ghost use Rattle.base_core.specs.Faults.{saturating_increment};
ghost use Rattle.host_tree.specs.Host.{host_counts};

use base_core::{Sink, SinkFault, Words};
use std::alloc::{AllocError, Global};
use std::env::{Env, FillError};
use std::io::{ErrorKind, Write};

/// The most words that a command line may have: 2^32 - 2, the most that `Words` of `base_core`
/// holds.
const MOST_WORDS: usize = 4294967294;

/// How often one argument is read, each time with a buffer twice as long as before. An argument
/// that never fits counts as out of memory. The buffer has 4,096 bytes at first and is never made
/// smaller, so that an argument may have two gigabytes.
const MOST_DOUBLINGS: u32 = 20;

/// How many bytes of stack a run takes, after it has read its words and before any call on the
/// tree. The run of the tests that needs most stack takes some 280,000 bytes.
const STACK: usize = 524_288;

/// Why the arguments of the command line are not read.
#[derive(Drop)]
pub enum ArgumentsFault {
    /// There are more arguments than a command line may have.
    TooMany,
    /// There was no memory for the arguments.
    Memory,
}

impl From<AllocError> for ArgumentsFault {
    // Out of memory, as an error of reading the arguments.
    fn from(_: AllocError) -> ArgumentsFault {
        ArgumentsFault::Memory
    }
}

/// The words of the command line, without the program's name, as the bytes that the host handed
/// over.
pub fn words_of(rt: &impl Env, alloc: Global) -> Result<Words, ArgumentsFault> {
    let mut words = Words::new(alloc);
    let mut buffer = vec![in alloc; 0u8; 4096]?;
    // The argument of the host with number 0 is the name of the program.
    for i in 1..=MOST_WORDS + 1 {
        let Some(len) = read_word(rt, i, &mut buffer)? else {
            return Ok(words);
        };
        if words.len() == MOST_WORDS {
            return Err(ArgumentsFault::TooMany);
        }
        words.push(&buffer[..len])?;
    }
    Err(ArgumentsFault::TooMany)
}

/// Makes the stack as large as a run needs, so that a lack of memory is an error here, and not a
/// signal during a change: the host kills a program whose stack cannot grow. So as much memory is
/// requested first, and released: if the host has it, the stack can grow by as much.
///
/// `seed` is a number that the compiler does not know, so that it cannot leave out the writes.
pub fn take_stack(alloc: Global, seed: usize) -> Result<(), AllocError> {
    let mut requested = Vec::with_capacity(alloc, STACK)?;
    requested.push(1)?;
    requested.push(0)?;
    // 1 or 0; the compiler does not know which.
    let byte = requested[seed % 2];
    drop(requested);
    // The result is 0 or 1. Because of this test the compiler cannot leave out the call.
    if touch_stack(seed, byte) > 1 {
        return Err(AllocError);
    }
    Ok(())
}

/// Fills `STACK` bytes of the stack with zeros and the one byte `byte`, and returns one of these
/// bytes. The call must not be inlined: the frame of its caller would keep the bytes for the whole
/// run, and later calls would need more stack than was taken.
#[inline(never)]
fn touch_stack(seed: usize, byte: u8) -> u8 {
    let mut stack = [0u8; STACK];
    stack[seed % STACK] = byte;
    stack[seed / 2 % STACK]
}

// Reads an argument into the buffer, which grows until it fits, and returns its length, or None if
// there is no such argument.
fn read_word(rt: &impl Env, i: usize, buffer: &mut Vec<u8>) -> Result<Option<usize>, AllocError>
    // The length is at most that of the buffer.
    ensures { IfOk result (λ found. IfSome found (λ len. len ≤ vec_len buffer.new)) }
{
    for _doubling in 0..MOST_DOUBLINGS {
        match rt.arg(i, buffer) {
            Ok(len) => return Ok(Some(len)),
            Err(FillError::NotPresent) => return Ok(None),
            Err(FillError::TooLong) => buffer.resize(2 * buffer.len() + 1, 0)?,
        }
    }
    Err(AllocError)
}

/// A stream of the host. Its bytes are not observable; each write that returns a fault counts it.
#[derive(Drop)]
pub struct HostSink<W: Write + Drop> {
    /// The stream of the host.
    inner: W,
    /// How many writes have failed.
    faults: u64,
}

impl<W: Write + Drop> HostSink<W> {
    /// A sink that has not failed yet.
    pub fn new(inner: W) -> HostSink<W>
        // No fault is counted yet.
        ensures { result.faults ≡ 0 }
    {
        HostSink { inner, faults: 0 }
    }

    /// Counts a fault; the count saturates at its largest value.
    fn fault(&mut self) -> SinkFault
        // One more fault is counted, up to 2^64 - 1.
        ensures faults { self.new.faults ≡ saturating_increment self.old.faults }
        // The count of faults does not fall.
        ensures later { self.old.faults ≤ self.new.faults }
    {
        self.faults = self.faults.saturating_add(1);
        SinkFault
    }
}

impl<W: Write + Drop> Sink for HostSink<W> {
    // The bytes of a host's stream are not observable: no contract mentions them.
    ghost bytes = { λ sink. None };

    // The counts are those of a host's sink with this many faults.
    ghost counts = { λ sink. host_counts sink.faults };

    /// Writes as many bytes as the stream takes at once. Without bytes the host is not called.
    fn write(&mut self, piece: &[u8]) -> Result<usize, SinkFault> {
        if piece.is_empty() {
            return Ok(0);
        }
        match write_some(&mut self.inner, piece) {
            Some(n) => Ok(n),
            None => Err(self.fault()),
        }
    }
}

/// Writes the beginning of a piece, and returns how many bytes the host took, or None if the write
/// failed. A write that a signal interrupts is tried again.
fn write_some<W: Write>(inner: &mut W, piece: &[u8]) -> Option<usize>
    // The host took at least one byte, and at most the bytes of the piece.
    ensures { IfSome result (λ n. (0 < n) × (n ≤ length piece.now)) }
{
    for _ in 0..u64::MAX {
        match inner.write(piece) {
            Ok(0) => return None,
            Ok(n) => return Some(n),
            Err(e) if e.kind() == ErrorKind::Interrupted => {}
            Err(_) => return None,
        }
    }
    None
}
