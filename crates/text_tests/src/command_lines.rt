//! Answers questions about `command_core`, `words_core` and `report_core`: command lines, kinds of
//! operands and values, the lines of refusals, and reports.

mod lines;
mod texts;

use crate::command_lines::lines::{add_line, is_operand, is_value, repeated_words};
use crate::command_lines::texts::{add_refusal, add_report};
use base_core::{SinkFault, Words};
use row_lines::{Answer, value_named, word_at, words_behind};
use std::alloc::{AllocError, Global};
use tree_memory::MemorySink;

/// The questions; the README of this crate has the answer to each.
#[derive(Clone, Copy)]
pub enum Question {
    /// `line WORD ..`: whether the words are a command, or the first wrong word.
    Line,
    /// `many N WORD WORD ..`: as `line`, for a line whose second word is repeated N times.
    RepeatedWord,
    /// `asked WORD ..`: what is printed for help, or for the version of the program.
    Asked,
    /// `command WORD ..`: the applet, the options without a value, and the operands.
    Command,
    /// `values WORD ..`: the values of options.
    Values,
    /// `letters WORD ..`: the letters of the options that have a value.
    Letters,
    /// `value KIND TEXT`: whether TEXT is a value of this kind.
    Value,
    /// `operand KIND TEXT`: whether TEXT is an operand of this kind.
    Operand,
    /// `refusal NAME FIELD ..`: the error line of a refusal.
    Refusal,
    /// `report WORD ..`: the text of a report.
    Report,
}

// The first word of each question.
#[rattlefmt::skip]
const QUESTIONS: [(&[u8], Question); 10] = [
    (b"line", Question::Line),
    (b"many", Question::RepeatedWord),
    (b"asked", Question::Asked),
    (b"command", Question::Command),
    (b"values", Question::Values),
    (b"letters", Question::Letters),
    (b"value", Question::Value),
    (b"operand", Question::Operand),
    (b"refusal", Question::Refusal),
    (b"report", Question::Report),
];

/// Answers a question by its first word. No question depends on an earlier one.
pub(crate) fn answer_about_command_lines(
    alloc: Global,
    words: &Words,
    answer: &mut Answer,
) -> Result<(), AllocError> {
    let Some(question) = value_named(&QUESTIONS, word_at(words, 0)) else {
        answer.push(b"no question");
        return Ok(());
    };
    // The words after the first one, which names the question.
    let rest = words_behind(alloc, words, 1)?;
    match question {
        Question::RepeatedWord => {
            add_line(alloc, question, &repeated_words(alloc, &rest)?, answer)
        }
        Question::Value => answer.add_yes_or_no(is_value(&rest)),
        Question::Operand => answer.add_yes_or_no(is_operand(&rest)),
        Question::Refusal => add_refusal(alloc, &rest, answer),
        Question::Report => return add_report(alloc, &rest, answer),
        _ => add_line(alloc, question, &rest, answer),
    }
    Ok(())
}

/// Adds what was written to a sink in memory, whose only fault is that memory ran out.
fn add_written(sink: &MemorySink, outcome: Result<(), SinkFault>, answer: &mut Answer) {
    match outcome {
        Ok(()) => answer.push(sink.bytes()),
        Err(_) => answer.add_text(Err(AllocError)),
    }
}
