//! Answers questions about `adb_view`, `adb_fields` and `adb_schema`: words (32-bit references) of
//! a payload, the shapes (types of values) of payloads, the rules of texts, the fields that views
//! show, and whole containers. A payload is kept from one row to the next.

mod answer;
mod payloads;
mod shapes;
mod views;
mod words;

use crate::schemas::payloads::table_of;
use crate::schemas::shapes::{
    add_faults, add_many_files, add_read, add_rule, add_shape, add_visits,
};
use crate::schemas::views::add_view;
use crate::schemas::words::{add_head, add_reads};
use adb_schema::read_adb;
use base_core::Words;
use row_lines::{Answer, Subject, value_named, word_at};
use std::alloc::{AllocError, Global};

/// The kinds of questions; the README of this crate has their answers.
#[derive(Clone, Copy)]
enum Question {
    /// `payload BYTES`: later questions `head` and `word` are about this payload.
    Payload,
    /// `head`: the word of the root, or the fault of the head.
    Head,
    /// `word W`: what the readers of values find for the word W.
    Word,
    /// `shape TABLE MORE WORD ..`: the fault of an object with these words, if the bytes MORE
    /// follow.
    Shape,
    /// `faults TABLE`: for how many fields of the table a wrong value is reported.
    Faults,
    /// `visits TABLE BEFORE WORD ..`: how many values of such an object are visited.
    Visits,
    /// `many_files N`: the fault of a package that lists one folder of N files N times.
    ManyFiles,
    /// `rules TABLE VALUE`: the first failed test of the value.
    Rules,
    /// `view TABLE VALUE`: the fields of the value, as the views of `adb_schema` read them.
    View,
    /// `container BYTES TABLE`: the first failed test of the container.
    Container,
}

// The first word of each question.
#[rattlefmt::skip]
const QUESTIONS: [(&[u8], Question); 10] = [
    (b"payload", Question::Payload),
    (b"head", Question::Head),
    (b"word", Question::Word),
    (b"shape", Question::Shape),
    (b"faults", Question::Faults),
    (b"visits", Question::Visits),
    (b"many_files", Question::ManyFiles),
    (b"rules", Question::Rules),
    (b"view", Question::View),
    (b"container", Question::Container),
];

/// The payload of the last question `payload`.
#[derive(Drop)]
pub(crate) struct CurrentPayload {
    /// The bytes of the payload; empty before the first question `payload`.
    bytes: Vec<u8>,
}

impl CurrentPayload {
    /// No payload yet: it has no bytes.
    pub(crate) fn new(alloc: Global) -> CurrentPayload {
        CurrentPayload {
            bytes: Vec::new(alloc),
        }
    }
}

impl Subject for CurrentPayload {
    // Answers a question by its first word.
    fn answer(
        &mut self,
        alloc: Global,
        words: &Words,
        answer: &mut Answer,
    ) -> Result<(), AllocError> {
        let Some(question) = value_named(&QUESTIONS, word_at(words, 0)) else {
            answer.push(b"no question");
            return Ok(());
        };
        match question {
            Question::Payload => {
                self.bytes.clear();
                return self.bytes.extend_from_slice(word_at(words, 1));
            }
            Question::Head => add_head(alloc, &self.bytes, answer),
            Question::Word => add_reads(alloc, &self.bytes, word_at(words, 1), answer),
            Question::Shape => return add_shape(alloc, words, answer),
            Question::Faults => return add_faults(alloc, word_at(words, 1), answer),
            Question::Visits => return add_visits(alloc, words, answer),
            Question::ManyFiles => return add_many_files(alloc, word_at(words, 1), answer),
            Question::Rules => return add_rule(alloc, words, answer),
            Question::View => return add_view(alloc, words, answer),
            Question::Container => {
                let read = read_adb(alloc, word_at(words, 1), table_of(word_at(words, 2)));
                add_read(alloc, read, answer);
            }
        }
        Ok(())
    }
}
