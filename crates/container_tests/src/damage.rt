//! Answers questions about damaged containers: each byte of a small container is set to each value,
//! each word (four bytes) is replaced by each other word, and the file is cut off at each length.
//! An answer counts the results by their kinds, and has a digest over all results. The script
//! `tests/model/verify.py` computes the expected answers. A container is kept from one row to the
//! next.

ghost use Rattle.std.specs.Prelude.{◌+◌, ◌≤◌, length};

mod reading;
mod tally;

use crate::damage::reading::Test;
use crate::damage::tally::Tally;
use base_core::Words;
use row_lines::{Answer, Bytes, Subject, value_named, word_at};
use std::alloc::{AllocError, Global};

/// The kinds of questions, each with the way in which files are tested.
#[derive(Clone, Copy)]
enum Question {
    /// `container BYTES`: later questions are about the container with these bytes.
    Container,
    /// The container is tested as it is.
    Itself(Test),
    /// Each file is tested that has this damage.
    Sweep(Damage, Test),
}

/// How the files of a sweep (a question about many files) differ from the container.
#[derive(Clone, Copy)]
enum Damage {
    /// The value of one byte.
    Changes,
    /// One word (four bytes) is replaced by a word of the container.
    Words,
    /// The container is cut off.
    Cuts,
}

// The first word of the rows of each question. The words of `.._words` are those of the container,
// four bytes each.
#[rattlefmt::skip]
const QUESTIONS: [(&[u8], Question); 13] = [
    (b"container", Question::Container),
    (b"verify", Question::Itself(Test::Whole)),
    (b"verify_changes", Question::Sweep(Damage::Changes, Test::Whole)),
    (b"verify_words", Question::Sweep(Damage::Words, Test::Whole)),
    (b"verify_cuts", Question::Sweep(Damage::Cuts, Test::Whole)),
    (b"pieces", Question::Itself(Test::Pieces)),
    (b"pieces_changes", Question::Sweep(Damage::Changes, Test::Pieces)),
    (b"pieces_words", Question::Sweep(Damage::Words, Test::Pieces)),
    (b"pieces_cuts", Question::Sweep(Damage::Cuts, Test::Pieces)),
    (b"dump", Question::Itself(Test::Dump)),
    (b"dump_changes", Question::Sweep(Damage::Changes, Test::Dump)),
    (b"dump_words", Question::Sweep(Damage::Words, Test::Dump)),
    (b"dump_cuts", Question::Sweep(Damage::Cuts, Test::Dump)),
];

/// The container that the last row `container` has given.
#[derive(Drop)]
pub(crate) struct CurrentContainer {
    /// The bytes of the container; empty before the first row `container`.
    bytes: Vec<u8>,
}

impl CurrentContainer {
    /// No container yet: it has no bytes.
    pub(crate) fn new(alloc: Global) -> CurrentContainer {
        CurrentContainer {
            bytes: Vec::new(alloc),
        }
    }
}

impl Subject for CurrentContainer {
    /// Adds the answer to the row with these words, whose first word names the question.
    fn answer(
        &mut self,
        alloc: Global,
        words: &Words,
        answer: &mut Answer,
    ) -> Result<(), AllocError> {
        match value_named(&QUESTIONS, word_at(words, 0)) {
            Some(Question::Container) => {
                self.bytes.clear();
                self.bytes.extend_from_slice(word_at(words, 1))
            }
            Some(Question::Itself(test)) => {
                let mut line = Bytes::new(alloc);
                let _ = test.read(alloc, &self.bytes, &mut line)?;
                answer.push(&line.finish()?);
                Ok(())
            }
            Some(Question::Sweep(damage, test)) => {
                add_sweep(alloc, damage, test, &self.bytes, answer)
            }
            None => {
                answer.push(b"no question");
                Ok(())
            }
        }
    }
}

/// Adds to the answer the counts and the digest of the results of a test. The test is made of each
/// file that differs from `file` in this way, in the order of the offsets or lengths. A line of the
/// digest has the numbers that say how the file differs, and the result.
fn add_sweep(
    alloc: Global,
    damage: Damage,
    test: Test,
    file: &[u8],
    answer: &mut Answer,
) -> Result<(), AllocError> {
    let mut tally = Tally::new();
    match damage {
        Damage::Changes => {
            for at in 0..file.len() {
                read_values_at(alloc, test, file, at, &mut tally)?;
            }
        }
        Damage::Words => {
            for index in 0..file.len() / 4 {
                read_words_at(alloc, test, file, 4 * index, &mut tally)?;
            }
        }
        Damage::Cuts => {
            for len in 0..=file.len() {
                tally.add(alloc, test, format!(in alloc; "{len} "), &file[..len])?;
            }
        }
    }
    tally.add_to(alloc, answer);
    Ok(())
}

/// Tests the file with each of the 256 values of the byte at the offset `at`. A line of the digest
/// has the offset, the value and the result.
fn read_values_at(
    alloc: Global,
    test: Test,
    file: &[u8],
    at: usize,
    tally: &mut Tally,
) -> Result<(), AllocError> {
    let mut changed = file.to_vec(alloc)?;
    for value in 0..=u8::MAX {
        if let Some(byte) = changed.get_mut(at) {
            *byte = value;
        }
        tally.add(alloc, test, format!(in alloc; "{at} {value} "), &changed)?;
    }
    Ok(())
}

/// Tests the file with the word at the offset `at` replaced by each word of the file. A word is the
/// four bytes at an offset that is a multiple of four. A line of the digest has the offsets of both
/// words and the result.
fn read_words_at(
    alloc: Global,
    test: Test,
    file: &[u8],
    at: usize,
    tally: &mut Tally,
) -> Result<(), AllocError>
    // The word at this offset ends within the file.
    requires { at + 4 ≤ length file.now }
{
    for index in 0..file.len() / 4 {
        let from = 4 * index;
        let mut changed = file.to_vec(alloc)?;
        changed[at..at + 4].copy_from_slice(&file[from..from + 4]);
        tally.add(alloc, test, format!(in alloc; "{at} {from} "), &changed)?;
    }
    Ok(())
}
