//! Tests in rows of one line each: the words of a question, ` -> `, and the expected answer. A test
//! program of some crates implements `Subject` to answer the questions, and calls `run_program`.
//! `tests/lines.md` describes the form.
//!
//! Nothing is proved of what is compared: these are tests.
#![tactic(auto)]

mod answer;
mod bytes;
mod reading;

pub use answer::Answer;
use base_core::Words;
pub use bytes::Bytes;
pub use reading::{number_of, value_named, word_at, words_behind};
use reading::{bytes_of, words_of};
use std::alloc::{AllocError, Global};
use std::io;
use std::io::{Input, Print, Read, Write};
use std::process::ExitCode;

/// A test program that answers questions about some crates.
pub trait Subject {
    /// Adds the answer to a question to `answer`. The first word of the question says what is
    /// asked.
    fn answer(
        &mut self,
        alloc: Global,
        words: &Words,
        answer: &mut Answer,
    ) -> Result<(), AllocError>;
}

/// Runs the rows that are on standard input, and prints what `run_lines` reports. Returns the
/// exit status: 0 if no row failed, else 1.
pub fn run_program<R: Input + Print, S: Subject>(
    rt: &R,
    alloc: Global,
    subject: &mut S,
) -> io::Result<ExitCode> {
    let mut text = Vec::new(alloc);
    rt.reader().read_to_end(&mut text)?;
    let mut report = Bytes::new(alloc);
    let passed = run_lines(alloc, subject, &text, &mut report)?;
    io::writer(rt).write_all(&report.finish()?)?;
    Ok(ExitCode::from(if passed { 0 } else { 1 }))
}

/// Runs all rows of a text. Reports each row that fails, with the answer that was found, and last
/// the counts. Returns whether no row failed.
fn run_lines<S: Subject>(
    alloc: Global,
    subject: &mut S,
    text: &[u8],
    report: &mut Bytes,
) -> Result<bool, AllocError> {
    // How many rows were run, and how many of them failed.
    let mut rows = 0u64;
    let mut failed = 0u64;
    for line in text.split(|byte| *byte == b'\n') {
        // Empty lines and comments are no rows.
        if !line.is_empty() && !line.starts_with(b"#") {
            rows = rows.saturating_add(1);
            if !run_line(alloc, subject, line, report)? {
                failed = failed.saturating_add(1);
            }
        }
    }
    report.push_text(format!(in alloc; "{rows} rows, {failed} failed\n"));
    Ok(failed == 0)
}

/// Runs the row of a line, and returns whether the row passes. If it fails, the row and the answer
/// are added to the report.
fn run_line<S: Subject>(
    alloc: Global,
    subject: &mut S,
    line: &[u8],
    report: &mut Bytes,
) -> Result<bool, AllocError> {
    let Some((question, wanted)) = parts_of(line) else {
        add_failure(report, line, b"no row");
        return Ok(false);
    };
    // The words of the question, and the expected answer, both without escapes.
    let words = words_of(alloc, question)?;
    let wanted = bytes_of(alloc, wanted)?;
    let mut answer = Answer::new(alloc);
    subject.answer(alloc, &words, &mut answer)?;
    let found = answer.finish()?;
    if found.as_slice() == wanted.as_slice() {
        return Ok(true);
    }
    add_failure(report, line, &found);
    Ok(false)
}

/// Adds to a report a row that fails, and the answer that was found instead of the expected one.
fn add_failure(report: &mut Bytes, line: &[u8], found: &[u8]) {
    for part in [b"FAILED ".as_slice(), line, b"\n found ", found, b"\n"] {
        report.push(part);
    }
}

/// The question of a line and its expected answer: the text before the first ` ->`, and the text
/// after it. None if there is no ` ->`.
fn parts_of(line: &[u8]) -> Option<(&[u8], &[u8])> {
    for i in 0..line.len() {
        if let Some(rest) = line[i..].strip_prefix(b" ->") {
            return Some((&line[..i], rest.strip_prefix(b" ").unwrap_or(rest)));
        }
    }
    None
}
