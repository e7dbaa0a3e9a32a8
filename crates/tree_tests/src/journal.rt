//! Answers questions about `journal_core`, `journal_recovery` and `journal_commit`. A change of
//! several files is cut off, or a call fails: the rows say which files are left, and what a recovery
//! makes of them. Other rows say which journal entries (intents) are refused. Others replace a file
//! again and again while the names are never synced.

mod changing;
mod intents;
mod many;
mod replacing;
mod sweeping;

use crate::journal::intents::{add_change, add_cuts, add_recovery};
use crate::journal::many::add_many_writes;
use crate::journal::replacing::add_replacements;
use crate::journal::sweeping::{add_fault, add_stop};
use base_core::Words;
use row_lines::{Answer, Subject, value_named, word_at};
use std::alloc::{AllocError, Global};

/// The questions of rows; the README of this crate says what each question shows.
#[derive(Clone, Copy)]
enum Question {
    /// `change CHANGE CALLS NAME BYTES ..`: a change is stopped after CALLS calls on the tree.
    Change,
    /// `stop CHANGE CALLS NAME BYTES ..`: a change is stopped after CALLS calls on the tree; then
    /// each crash image, that is, each set of files that a crash may leave, is recovered.
    Stop,
    /// `fault CHANGE CALL NAME BYTES ..`: call number CALL of a change fails, and then one call of
    /// each of two recoveries.
    Fault,
    /// `recover NAME BYTES ..`: these files are recovered twice.
    Recover,
    /// `cuts INTENT NAME BYTES ..`: the journal entry is cut to each shorter length.
    Cuts,
    /// `many WRITES WAITING`: a journal entry with WRITES writes, of which the last WAITING are not
    /// done yet, is read and recovered.
    ManyWrites,
    /// `replace NAME CALLS`: a file is replaced, after many others were moved to its name. The
    /// replacement is stopped after CALLS calls on the tree.
    Replace,
}

// The first word of the rows of each question.
#[rattlefmt::skip]
const QUESTIONS: [(&[u8], Question); 7] = [
    (b"change", Question::Change),
    (b"stop", Question::Stop),
    (b"fault", Question::Fault),
    (b"recover", Question::Recover),
    (b"cuts", Question::Cuts),
    (b"many", Question::ManyWrites),
    (b"replace", Question::Replace),
];

/// The subject that the rows are about. It keeps nothing, since each row makes trees of its own.
#[derive(Drop)]
pub(crate) struct Sweeps;

impl Subject for Sweeps {
    // Adds the answer to the row with these words, whose first word names the question.
    fn answer(
        &mut self,
        alloc: Global,
        words: &Words,
        answer: &mut Answer,
    ) -> Result<(), AllocError> {
        let Some(question) = value_named(&QUESTIONS, word_at(words, 0)) else {
            answer.push(b"no question");
            return Ok(());
        };
        match question {
            Question::Change => add_change(alloc, words, answer),
            Question::Stop => add_stop(alloc, words, answer),
            Question::Fault => add_fault(alloc, words, answer),
            Question::Recover => add_recovery(alloc, words, answer),
            Question::Cuts => add_cuts(alloc, words, answer),
            Question::ManyWrites => add_many_writes(alloc, words, answer),
            Question::Replace => add_replacements(alloc, words, answer),
        }
    }
}
