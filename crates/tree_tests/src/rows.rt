//! Answers questions about `row_text`, `row_run` and `row_check`: what `row_run` reports of texts
//! that are not spelled as rows, and of rows that fail. The faults are in `tests/rows.md`, "A text
//! that is none", and what is compared in "Lines" and "What goes wrong". A text of rows is kept
//! from one row of this program to the next.

mod echo;

use crate::rows::echo::Echo;
use base_core::Words;
use row_lines::{Answer, Bytes, Subject, value_named, word_at};
use row_run::run_text;
use std::alloc::{AllocError, Global};

/// The questions of rows; the README of this crate says what each question answers.
#[derive(Clone, Copy)]
enum Question {
    /// `line WORD ..`: a line is added to the text.
    Line,
    /// `last_line WORD ..`: a line without a line end is added to the text.
    LastLine,
    /// `report`: the report of the rows of the text, which is then empty.
    Report,
}

// The first word of each question.
#[rattlefmt::skip]
const QUESTIONS: [(&[u8], Question); 3] = [
    (b"line", Question::Line),
    (b"last_line", Question::LastLine),
    (b"report", Question::Report),
];

/// The text of rows that the next question `report` is about.
#[derive(Drop)]
pub(crate) struct RowText {
    /// The lines of the text, as earlier rows have added them.
    text: Bytes,
}

impl RowText {
    /// A text without lines.
    pub(crate) fn new(alloc: Global) -> RowText {
        RowText {
            text: Bytes::new(alloc),
        }
    }

    /// Adds the words of a row after its first word to the text, with a space between them.
    fn add_words(&mut self, words: &Words) {
        for i in 1..words.len() {
            if i > 1 {
                self.text.push(b" ");
            }
            self.text.push(words.word(i));
        }
    }

    /// Adds the report of the rows of the text, which is then empty.
    fn add_report(&mut self, alloc: Global, answer: &mut Answer) -> Result<(), AllocError> {
        let text = std::mem::replace(&mut self.text, Bytes::new(alloc)).finish()?;
        let mut report = Vec::new(alloc);
        run_text(alloc, &Echo, &text, &mut report)?;
        answer.push(&report);
        Ok(())
    }
}

impl Subject for RowText {
    /// Answers a question by its first word, on the text that earlier rows have left.
    fn answer(
        &mut self,
        alloc: Global,
        words: &Words,
        answer: &mut Answer,
    ) -> Result<(), AllocError> {
        match value_named(&QUESTIONS, word_at(words, 0)) {
            Some(Question::Line) => {
                self.add_words(words);
                self.text.push(b"\n")
            }
            Some(Question::LastLine) => self.add_words(words),
            Some(Question::Report) => return self.add_report(alloc, answer),
            None => answer.push(b"no question"),
        }
        Ok(())
    }
}
