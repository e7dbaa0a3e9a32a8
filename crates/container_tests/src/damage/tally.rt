//! Counts the results of tests by their kinds, and computes a digest over their lines. The kinds
//! are the causes in `docs/commands.md`, "Error lines", and `sound` for a file without a fault.

use crate::damage::reading::Test;
use base_core::Cause;
use row_lines::{Answer, Bytes};
use sha2::{Digest, Sha256};
use std::alloc::{AllocError, Global};

/// The kind of a result: the file is sound, or its first failed test has a cause of this kind. The
/// text of each kind is in `KIND_NAMES`, at its place in this list.
#[derive(Clone, Copy)]
pub(crate) enum AnswerKind {
    Sound,
    NotAdb,
    Compressed,
    Truncated,
    BlockOrder,
    CompatVersion,
    WrongSchema,
    Outside,
    WrongKind,
    TooLarge,
    BadText,
    Repeated,
    DataOrder,
    DataSize,
    HashDiffers,
    TextLine,
}

/// How many kinds of results there are.
const KINDS: usize = 16;

/// The text by which answers name each kind, in the order of `AnswerKind`, which is the order in
/// which counts are printed.
#[rattlefmt::skip]
const KIND_NAMES: [&[u8]; KINDS] = [
    b"sound",
    b"not an ADB file",
    b"compressed ADB file",
    b"truncated",
    b"block out of order",
    b"incompatible version",
    b"wrong schema",
    b"value points outside",
    b"value has the wrong kind",
    b"values are too many",
    b"bad field",
    b"field repeated",
    b"contents where others were expected",
    b"contents of another length",
    b"hash where another was expected",
    b"bad line",
];

/// The kind of the result for a file whose first failed test has this cause.
pub(crate) fn kind_of(cause: Cause) -> AnswerKind {
    match cause {
        Cause::NotAdb => AnswerKind::NotAdb,
        Cause::Compressed => AnswerKind::Compressed,
        Cause::Truncated { .. } => AnswerKind::Truncated,
        Cause::BlockOrder { .. } => AnswerKind::BlockOrder,
        Cause::CompatVersion => AnswerKind::CompatVersion,
        Cause::WrongSchema { .. } => AnswerKind::WrongSchema,
        Cause::Outside { .. } => AnswerKind::Outside,
        Cause::WrongKind { .. } => AnswerKind::WrongKind,
        Cause::TooLarge { .. } => AnswerKind::TooLarge,
        Cause::BadText { .. } => AnswerKind::BadText,
        Cause::Repeated { .. } => AnswerKind::Repeated,
        Cause::DataOrder { .. } => AnswerKind::DataOrder,
        Cause::DataSize { .. } => AnswerKind::DataSize,
        Cause::HashDiffers { .. } => AnswerKind::HashDiffers,
        Cause::TextLine { .. } => AnswerKind::TextLine,
    }
}

/// How many results of each kind there are so far, and the SHA-256 (FIPS 180-4) of all their lines.
#[derive(Drop)]
pub(crate) struct Tally {
    /// How many results of each kind there are, in the order of `KIND_NAMES`.
    counts: [u64; KINDS],
    /// The SHA-256 over the lines of all results so far.
    digest: Sha256,
}

impl Tally {
    /// A tally before the first result.
    pub(crate) fn new() -> Tally {
        Tally {
            counts: [0; KINDS],
            digest: Sha256::new(),
        }
    }

    /// Tests a file, and counts the result. The line that is added to the digest is `start` (how
    /// the file differs, if there was memory for it) and the result.
    pub(crate) fn add(
        &mut self,
        alloc: Global,
        test: Test,
        start: Result<String, AllocError>,
        file: &[u8],
    ) -> Result<(), AllocError> {
        let mut line = Bytes::new(alloc);
        line.push_text(start);
        let kind = test.read(alloc, file, &mut line)? as usize;
        self.digest.update(&line.finish()?);
        self.counts[kind] = self.counts[kind].saturating_add(1);
        Ok(())
    }

    /// Adds, for each kind that has results, the kind's text and their number; and then the digest
    /// in hexadecimal.
    pub(crate) fn add_to(self, alloc: Global, answer: &mut Answer) {
        for i in 0..KINDS {
            if self.counts[i] > 0 {
                answer.add_word(KIND_NAMES[i]);
                answer.push(b" ");
                answer.add_number(u128::from(self.counts[i]));
                answer.push(b",");
            }
        }
        answer.push(b" ");
        for byte in self.digest.finalize() {
            answer.add_text(format!(in alloc; "{byte:02x}"));
        }
    }
}
