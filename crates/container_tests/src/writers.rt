//! Answers questions about `adb_write`, `adb_values` and `pkg_core`: the words (32-bit references)
//! and the payloads of written values, which may exceed a limit, and the files of a package.

mod files;
mod numbers;
mod values;

use crate::writers::files::add_files;
use crate::writers::numbers::add_numbers;
use crate::writers::values::{draft_of, write_values};
use adb_schema::PACKAGE_WORD;
use adb_view::Val;
use adb_write::{WriteFault, file_of};
use base_core::Words;
use row_lines::{Answer, Subject, value_named, word_at};
use std::alloc::{AllocError, Global};

/// The most bytes of a payload (`docs/formats.md`, "Canonical layout").
const MOST_BYTES: usize = 268_435_455;

/// The questions that a row may ask, with what is answered; the README of this crate says more.
#[derive(Clone, Copy)]
pub(crate) enum Question {
    /// `write VALUE ..`: the words of the values, and the payload whose root is the last value.
    Write,
    /// `file VALUE ..`: a container with the payload whose root is the last value.
    File,
    /// `draft VALUE ..`: the payload of a draft of these values.
    Draft,
    /// `repeated N VALUE ..`: the length of the payload of an array with N times these values.
    Repeated,
    /// `numbers ORDER`: whether 5,000 blobs get the same words if they are written twice.
    Numbers,
    /// `package BYTES`: the identity of a package, and the contents of its files.
    Package,
}

// The word with which a row asks each question.
#[rattlefmt::skip]
const QUESTIONS: [(&[u8], Question); 6] = [
    (b"write", Question::Write),
    (b"file", Question::File),
    (b"draft", Question::Draft),
    (b"repeated", Question::Repeated),
    (b"numbers", Question::Numbers),
    (b"package", Question::Package),
];

/// The crates that the questions are about. Nothing is kept from one row to the next.
#[derive(Drop)]
pub(crate) struct Containers;

impl Subject for Containers {
    /// Answers a question by its first word.
    fn answer(
        &mut self,
        alloc: Global,
        words: &Words,
        answer: &mut Answer,
    ) -> Result<(), AllocError> {
        let Some(question) = value_named(&QUESTIONS, word_at(words, 0)) else {
            answer.push(b"no question");
            return Ok(());
        };
        let payload = match question {
            Question::Write | Question::File => {
                let (writer, root) = write_values(alloc, question, words, answer)?;
                writer.finish(root)
            }
            Question::Draft | Question::Repeated => draft_of(alloc, question, words)?.finish(),
            // The root is null.
            Question::Numbers => add_numbers(alloc, word_at(words, 1), answer)?.finish(Val::of(0)),
            Question::Package => return add_files(alloc, word_at(words, 1), answer),
        };
        add_payload(alloc, question, payload, answer)
    }
}

/// Adds what a question asks of a payload: the container with the schema of a package, the length
/// of the payload, or its bytes. If there is no payload, adds the counts of bytes and values just
/// after the first value with which a count exceeds its limit.
fn add_payload(
    alloc: Global,
    question: Question,
    payload: Result<Vec<u8>, WriteFault>,
    answer: &mut Answer,
) -> Result<(), AllocError> {
    match payload {
        Ok(payload) => match question {
            Question::File => {
                if payload.len() > MOST_BYTES {
                    answer.push(b"too many bytes");
                } else {
                    answer.push(&file_of(alloc, PACKAGE_WORD, &payload)?);
                }
            }
            Question::Repeated | Question::Numbers => {
                answer.push(b"bytes ");
                answer.add_number(payload.len() as u128);
            }
            _ => answer.push(&payload),
        },
        Err(WriteFault::TooLarge { bytes, values }) => {
            answer.add_text(format!(in alloc; "too large: {bytes} bytes, {values} values"))
        }
        Err(WriteFault::Memory) => return Err(AllocError),
    }
    Ok(())
}
