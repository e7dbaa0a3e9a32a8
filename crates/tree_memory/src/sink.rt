//! A sink in memory, which tests use as standard output or standard error.
//! The contract is that of `Sink` of `base_core`; the counts are described in
//! `docs/crash-safety.md`, "Misuses, faults and counts".
ghost use Rattle.std.specs.Prelude.{◌≡◌, ◌≤◌, List, Option, Some, take, IfOk, OnErr, [], IsOk};
ghost use Rattle.base_core.specs.Faults.{FailsWithCause, saturating_increment};
ghost use Rattle.base_core.specs.Sink.{AddsBytesToSink, IsWriteCount};
ghost use Rattle.tree_memory.specs.Sink.{SinkState, new_sink, sink_counts, len_that_fits, len_within_write_limit, Takes, Refuses};

use base_core::{Sink, SinkFault};
use std::alloc::Global;
use std::marker::Model;

/// A sink in memory, with everything observable: its bytes, how many more it takes, and its counts.
#[derive(Drop)]
pub struct MemorySink {
    // All bytes that were written.
    bytes: Vec<u8>,
    // How many more bytes it takes, if its end is planned.
    room: Option<usize>,
    // How many bytes a write takes at most, if a limit is planned.
    most: Option<usize>,
    // How many writes failed.
    faults: u64,
    // How many of the failed writes failed because the sink was out of memory.
    memory_faults: u64,
}

impl Model for MemorySink {
    ghost use Rattle.tree_memory.specs.Sink.{SinkState};

    ghost Value = { SinkState };

    ghost view = { λ sink. record {
      bytes = sink.bytes.items;
      room = sink.room;
      most =
          sink.most;
      faults = sink.faults;
      memory_faults = sink.memory_faults;
    } };
}

impl MemorySink {
    /// An empty sink, with no faults and no planned end.
    pub fn new(alloc: Global) -> MemorySink
        ensures { result ≡ new_sink }
    {
        MemorySink {
            bytes: Vec::new(alloc),
            room: None,
            most: None,
            faults: 0,
            memory_faults: 0,
        }
    }

    /// All bytes that were written.
    pub fn bytes(&self) -> &[u8]
        ensures { result.now ≡ self.now.bytes }
    {
        &self.bytes
    }

    /// Takes this many more bytes; then each write of a byte fails.
    pub fn fail_after(&mut self, n: usize)
        ensures { self.new ≡ record self.old { room = Some n } }
    {
        self.room = Some(n);
    }

    /// Takes at most this many bytes in each write, as a pipe may.
    pub fn take_at_most(&mut self, n: usize)
        // The limit is at least one byte, so that each write makes progress.
        requires { 1 ≤ n }
        ensures { self.new ≡ record self.old { most = Some n } }
    {
        self.most = Some(n);
    }

    /// How many writes failed because the sink was out of memory.
    pub fn wants(&self) -> u64
        ensures { result ≡ self.now.memory_faults }
    {
        self.memory_faults
    }

    /// Counts a write that failed.
    fn fault(&mut self) -> SinkFault
        // The count of faults is one higher, up to 2^64 - 1.
        ensures is { self.new ≡ record self.old { faults = saturating_increment self.old.faults } }
        // The count of faults does not fall.
        ensures later { self.old.faults ≤ self.new.faults }
    {
        self.faults = self.faults.saturating_add(1);
        SinkFault
    }

    /// Counts a write that failed because the sink was out of memory, which is a fault too.
    fn want(&mut self) -> SinkFault
        // The count of faults is one higher, up to 2^64 - 1.
        ensures is { self.new ≡ record self.old {
          faults = saturating_increment self.old.faults;
          memory_faults =
              saturating_increment self.old.memory_faults;
        } }
        // The count of faults does not fall.
        ensures later { self.old.faults ≤ self.new.faults }
        // The count of faults for lack of memory does not fall.
        ensures more { self.old.memory_faults ≤ self.new.memory_faults }
    {
        self.memory_faults = self.memory_faults.saturating_add(1);
        self.fault()
    }
}

// How many of `len` bytes fit into the room that is left; all of them if no end is planned.
fn len_that_fits(room: Option<usize>, len: usize) -> usize
    ensures { result ≡ len_that_fits room len }
{
    match room {
        None => len,
        Some(room) => len.min(room),
    }
}

// How many of `len` bytes a write takes, by the planned limit. A limit of 0 counts as 1, so that a
// write takes at least one byte if there is one.
fn len_within_write_limit(most: Option<usize>, len: usize) -> usize
    ensures { result ≡ len_within_write_limit most len }
{
    match most {
        None => len,
        Some(n) => len.min(n.max(1)),
    }
}

impl Sink for MemorySink {
    // The bytes that were written so far, which contracts see.
    ghost bytes = { λ sink. Some sink.bytes };

    // The counts of a sink: its failed calls, and those that ran out of memory.
    ghost counts = { λ sink. sink_counts sink };

    /// Appends a prefix of `piece`, as long as the sink takes, and returns its length in bytes.
    fn write(&mut self, piece: &[u8]) -> Result<usize, SinkFault>
        // The returned number is at most the length of the piece, and not 0 unless the piece is
        // empty.
        ensures taken { IfOk result (λ n. IsWriteCount n piece.now) }
        // A write of no bytes succeeds.
        ensures empty { piece.now ≡ [] → IsOk result }
        // On success the first n bytes of the piece are added to those written.
        ensures added { IfOk result (λ n.
            AddsBytesToSink (Some self.old.bytes) (Some self.new.bytes) (take n piece.now)) }
        // An error leaves the written bytes as they were.
        ensures unchanged { OnErr result (Some self.new.bytes ≡ Some self.old.bytes) }
        // The counts rise only if the call fails, and then with the cause.
        ensures cause { FailsWithCause (sink_counts self.old) (sink_counts self.new) result }

        // On success the sink takes as many bytes as it can: all that fit, or the most that a
        // write takes.
        ensures ok { IfOk result (λ n. Takes self.old piece.now n self.new) }
        // The write fails only if no byte fits, or if the sink is out of memory.
        ensures err { OnErr result (Refuses self.old piece.now self.new) }
    {
        if piece.is_empty() {
            return Ok(0);
        }
        // How many bytes of the piece this write takes: none if no room is left.
        let n = len_within_write_limit(self.most, len_that_fits(self.room, piece.len()));
        if n == 0 {
            return Err(self.fault());
        }
        if self.bytes.extend_from_slice(&piece[..n]).is_err() {
            return Err(self.want());
        }
        if let Some(room) = self.room {
            self.room = Some(room - n);
        }
        Ok(n)
    }
}
