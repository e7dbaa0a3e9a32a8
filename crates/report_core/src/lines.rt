//! What a command prints. A report is made completely in memory before its first byte is printed.
//! The error line of a refusal is written to a sink (output stream) in pieces, without memory. The
//! rules are in `docs/commands.md`, "Error lines", and for reports in "Answers and statuses".

ghost use Rattle.std.specs.Prelude.{◌≡◌, [], ◌∷◌, decimal, ◌++◌, OnOk, OnErr};
ghost use Rattle.base_core.specs.Sink.{sink_before_and_after};
ghost use Rattle.base_core.specs.Write.{Writes};
ghost use Rattle.hex.specs.Hex.{encode_lower};
ghost use Rattle.report_core.specs.Pieces.{cause_text_if_any, piece_text, pieces_text, sentence_text};
ghost use Rattle.report_core.specs.Texts.{digest_bytes, folder_and_file_position_text, refusal_line};

use crate::refusal::Refusal;
use crate::sentence::{Sentence, cause_pieces, sentence_of};
use base_core::{Cause, Digest, Sink, SinkFault, Text, write_all};
use itoa::Buffer;
use std::alloc::{AllocError, Global};
use std::marker::Model;

/// Writes the error line of a refusal to the sink `err`. If the sink fails, it has got a prefix of
/// the line.
pub fn write_error<E: Sink>(refusal: &Refusal, err: &mut E) -> Result<(), SinkFault>
    // The sink gets this text. If a write fails, it gets a prefix of the text.
    ensures { Writes (refusal_line refusal.now)
        (sink_before_and_after E.bytes E.counts err.old err.new) result }
{
    let sentence = sentence_of(refusal);
    write_all(err, b"ERROR: ")?;
    write_sentence(&sentence, err)?;
    write_all(err, b"\n")
}

/// Writes the text of a refusal: its pieces, and then the text of its cause, if it has one.
fn write_sentence<E: Sink>(sentence: &Sentence<'_>, err: &mut E) -> Result<(), SinkFault>
    // The sink gets this text. If a write fails, it gets a prefix of the text.
    ensures { Writes (sentence_text sentence.now)
        (sink_before_and_after E.bytes E.counts err.old err.new) result }
{
    write_pieces(&sentence.pieces, err)?;
    write_cause(sentence.cause, err)
}

/// Writes the text of a cause, if there is one.
fn write_cause<E: Sink>(cause: Option<Cause>, err: &mut E) -> Result<(), SinkFault>
    // The sink gets this text. If a write fails, it gets a prefix of the text.
    ensures { Writes (cause_text_if_any cause)
        (sink_before_and_after E.bytes E.counts err.old err.new) result }
{
    match cause {
        Some(cause) => write_pieces(&cause_pieces(cause), err),
        None => Ok(()),
    }
}

/// A piece of the text of a refusal or a cause.
#[derive(Clone, Copy)]
pub(crate) enum Piece<'a> {
    /// Bytes as they are.
    Bytes(&'a [u8]),
    /// A number, in decimal digits.
    Number(u64),
    /// A word of a value or a schema, both with 32 bits, in eight hexadecimal digits.
    HexNumber(u32),
    /// Bytes, in two hexadecimal digits each.
    Hex(&'a [u8]),
    /// A digest, in hexadecimal digits.
    Digest(Digest),
    /// The positions of a folder in a package, and of a file in this folder, with a dot between.
    Position(u64, u64),
    /// No text.
    Nothing,
}

/// The pieces of a text. There are seven, the most that a refusal needs; unused ones are `Nothing`.
pub(crate) type Pieces<'a> = [Piece<'a>; 7];

/// Writes the texts of all pieces, in order. If the sink fails, it has got a prefix of these texts.
pub(crate) fn write_pieces<S: Sink>(pieces: &[Piece<'_>], sink: &mut S) -> Result<(), SinkFault>
    // The sink gets this text. If a write fails, it gets a prefix of the text.
    ensures { Writes (pieces_text pieces.now)
        (sink_before_and_after S.bytes S.counts sink.old sink.new) result }
{
    for piece in pieces {
        write_piece(piece, sink)?;
    }
    Ok(())
}

/// Writes the text of a piece.
fn write_piece<S: Sink>(piece: &Piece<'_>, sink: &mut S) -> Result<(), SinkFault>
    // The sink gets this text. If a write fails, it gets a prefix of the text.
    ensures { Writes (piece_text piece.now)
        (sink_before_and_after S.bytes S.counts sink.old sink.new) result }
{
    match *piece {
        Piece::Bytes(bytes) => write_all(sink, bytes),
        Piece::Number(number) => write_number(number, sink),
        Piece::HexNumber(number) => write_hex(&number.to_be_bytes(), sink),
        Piece::Hex(bytes) => write_hex(bytes, sink),
        Piece::Digest(digest) => write_hex(digest_bytes(&digest), sink),
        Piece::Position(folder, file) => write_position(folder, file, sink),
        Piece::Nothing => Ok(()),
    }
}

/// Writes the positions of a folder and of a file in this folder, with a dot between.
fn write_position<S: Sink>(folder: u64, file: u64, sink: &mut S) -> Result<(), SinkFault>
    // The sink gets this text. If a write fails, it gets a prefix of the text.
    ensures { Writes (folder_and_file_position_text folder file)
        (sink_before_and_after S.bytes S.counts sink.old sink.new) result }
{
    write_number(folder, sink)?;
    write_all(sink, b".")?;
    write_number(file, sink)
}

/// Writes a number in decimal.
fn write_number<S: Sink>(number: u64, sink: &mut S) -> Result<(), SinkFault>
    // The sink gets this text. If a write fails, it gets a prefix of the text.
    ensures { Writes (decimal number)
        (sink_before_and_after S.bytes S.counts sink.old sink.new) result }
{
    let mut digits = Buffer::new();
    write_all(sink, digits.format(number).as_bytes())
}

/// Writes bytes as hexadecimal digits.
fn write_hex<S: Sink>(bytes: &[u8], sink: &mut S) -> Result<(), SinkFault>
    // The sink gets this text. If a write fails, it gets a prefix of the text.
    ensures { Writes (encode_lower bytes.now)
        (sink_before_and_after S.bytes S.counts sink.old sink.new) result }
{
    for byte in bytes {
        let mut digits = [0; 2];
        // A byte gives two hexadecimal digits, which is the length of `digits`: the call cannot
        // fail.
        let _ = hex::encode_to_slice([*byte], &mut digits);
        write_all(sink, &digits)?;
    }
    Ok(())
}

// The bytes of a digest, which are printed in hexadecimal digits.
fn digest_bytes(digest: &Digest) -> &[u8]
    ensures { result.now ≡ digest_bytes digest.now }
{
    match digest {
        Digest::Sha1(bytes) => bytes,
        Digest::Sha256(bytes) => bytes,
        Digest::Sha512(bytes) => bytes,
    }
}

/// What a command prints on standard output.
#[derive(Drop)]
pub struct Report {
    /// The bytes of the report so far.
    bytes: Vec<u8>,
}

impl Model for Report {
    ghost use Rattle.std.specs.Prelude.{ℕ, List};

    ghost Value = { List ℕ };

    // In contracts a report is its bytes.
    ghost view = { λ report. report.bytes.items };
}

impl Report {
    /// An empty report.
    pub fn new(alloc: Global) -> Report
        ensures { result ≡ [] }
    {
        Report {
            bytes: Vec::new(alloc),
        }
    }

    /// Appends bytes to the report. If memory runs out, the report is unchanged.
    pub fn push(&mut self, piece: &[u8]) -> Result<(), AllocError>
        // On Ok, the bytes are appended.
        ensures ok { OnOk result (self.new ≡ self.old ++ piece.now) }
        // After an error, the report is unchanged.
        ensures err { OnErr result (self.new ≡ self.old) }
    {
        self.bytes.extend_from_slice(piece)?;
        Ok(())
    }

    /// Appends a number in decimal digits. If memory runs out, the report is unchanged.
    pub fn number(&mut self, n: u128) -> Result<(), AllocError>
        // On Ok, the digits are appended.
        ensures ok { OnOk result (self.new ≡ self.old ++ decimal n) }
        // After an error, the report is unchanged.
        ensures err { OnErr result (self.new ≡ self.old) }
    {
        let mut digits = Buffer::new();
        self.push(digits.format(n).as_bytes())
    }

    /// The bytes of the report.
    pub fn bytes(&self) -> &[u8]
        ensures { result.now ≡ self.now }
    {
        &self.bytes
    }

    /// The report as a text, without a copy.
    pub fn into_text(self) -> Text
        ensures { result ≡ self }
    {
        Text::from_vec(self.bytes)
    }
}
