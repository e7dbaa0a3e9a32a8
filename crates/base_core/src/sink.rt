//! Output streams: the trait `Sink`, and a write of all bytes. The rules are in
//! `docs/crash-safety.md`, "Misuses, faults and counts" (the counts of a sink), and in the rows of
//! `Sink` and `write_all` in the README of this crate.
ghost use Rattle.std.specs.Prelude.{◌≡◌, [], List, ℕ, Option, take, IsOk, IfOk, OnOk, OnErr};
ghost use Rattle.base_core.specs.Faults.{Counts, FailsWithCause};
ghost use Rattle.base_core.specs.Sink.{AddsBytesToSink, AddsPrefixToSink, IsWriteCount};

use thiserror::Error;

/// A sink failed: not all bytes were taken.
#[derive(Clone, Copy, Debug, PartialEq, Eq, Error)]
#[error("the sink failed")]
pub struct SinkFault;

/// An output stream, such as a file that is open for appending or a pipe.
pub trait Sink {
    /// The bytes written so far, if they are observable.
    ghost bytes: { Self → Option (List ℕ) };

    /// How many writes failed, and for which reasons.
    ghost counts: { Self → Counts };

    /// Takes a prefix of the bytes `piece`, at least one byte if there is one, and returns how many
    /// bytes were taken. A write of no bytes never fails.
    ///
    /// # Errors
    ///
    /// `SinkFault` if the sink failed; then it took nothing.
    fn write(&mut self, piece: &[u8]) -> Result<usize, SinkFault>
        // On Ok, the result is at most the length of the piece, and not 0 unless the piece is
        // empty.
        ensures taken { IfOk result (λ n. IsWriteCount n piece.now) }
        // A write of no bytes succeeds.
        ensures empty { piece.now ≡ [] → IsOk result }
        // On Ok, exactly the first n bytes of the piece are added, where n is the result.
        ensures added { IfOk result (λ n.
            AddsBytesToSink (bytes self.old) (bytes self.new) (take n piece.now)) }
        // On an error, no byte is added.
        ensures unchanged { OnErr result (bytes self.new ≡ bytes self.old) }
        // An error is counted with its cause, and Ok counts no fault.
        ensures cause { FailsWithCause (counts self.old) (counts self.new) result };
}

/// Writes all bytes, in as many calls as the sink needs.
///
/// # Errors
///
/// `SinkFault` if the sink failed; then a prefix of the bytes was added.
pub fn write_all<S: Sink>(sink: &mut S, bytes: &[u8]) -> Result<(), SinkFault>
    // On Ok, exactly these bytes are added.
    ensures ok { OnOk result (AddsBytesToSink (S.bytes sink.old) (S.bytes sink.new) bytes.now) }
    // On an error, a prefix of the bytes was added.
    ensures err { OnErr result (AddsPrefixToSink (S.bytes sink.old) (S.bytes sink.new) bytes.now) }
    // An error is counted with its cause, and Ok counts no fault.
    ensures cause { FailsWithCause (S.counts sink.old) (S.counts sink.new) result }
{
    let mut rest = bytes;
    while !rest.is_empty() {
        // How many bytes the sink took: at least one, so that the loop ends.
        let taken = sink.write(rest)?;
        rest = &rest[taken..];
    }
    Ok(())
}
