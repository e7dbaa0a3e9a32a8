//! Answers questions about `v2_core`: how text databases are read.

mod texts;

use crate::text_databases::texts::{add_database, add_fault, packages_text, repeated_text};
use base_core::Words;
use row_lines::{Answer, value_named, word_at};
use std::alloc::{AllocError, Global};
use v2_core::read_v2;

/// The kinds of questions, with what is answered; the README of this crate says more.
#[derive(Clone, Copy)]
pub(crate) enum Question {
    /// `read TEXT`: the dump of the database that is made of a text database. `read_repeated FRONT
    /// N PART BACK`: the same for the text that consists of FRONT, N times PART, and BACK.
    Read,
    /// `count_packages N`: how many packages are read of a text database with N records.
    CountPackages,
}

// The words that questions begin with.
#[rattlefmt::skip]
const QUESTIONS: [(&[u8], Question); 3] = [
    (b"read", Question::Read),
    (b"read_repeated", Question::Read),
    (b"count_packages", Question::CountPackages),
];

/// Answers a question about a text database. If the text is refused, the answer says why.
pub(crate) fn answer_about_text_databases(
    alloc: Global,
    words: &Words,
    answer: &mut Answer,
) -> Result<(), AllocError> {
    let Some(question) = value_named(&QUESTIONS, word_at(words, 0)) else {
        answer.push(b"no question");
        return Ok(());
    };
    let text = match question {
        Question::Read => repeated_text(alloc, words)?,
        Question::CountPackages => packages_text(alloc, word_at(words, 1))?,
    };
    match read_v2(alloc, &text) {
        Ok(payload) => add_database(alloc, question, &payload, answer),
        Err(fault) => add_fault(alloc, fault, answer),
    }
    Ok(())
}
