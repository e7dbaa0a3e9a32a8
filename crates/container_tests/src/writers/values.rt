//! Writes values, which the words of a row describe, with a writer or a draft. In a row, `.` is
//! null, `#` and a number is an integer, and `'` and bytes is a blob. `[` and `]` enclose an array,
//! `{` and `}` an object. `*` and a number repeat a value. After `~` the answer leaves out the
//! words (32-bit references) of the values before. The layout is in `docs/formats.md`, "Canonical
//! layout"; the README of this crate describes the words of a row.
use crate::writers::Question;
use adb_values::Draft;
use adb_view::Val;
use adb_write::Writer;
use base_core::Words;
use row_lines::{Answer, number_of, word_at};
use std::alloc::{AllocError, Global};

/// What a word of a row describes: a value, or the beginning or end of a list.
#[derive(Clone, Copy)]
enum Part<'a> {
    /// The value null.
    Null,
    /// An integer.
    Int(u64),
    /// A blob.
    Blob(&'a [u8]),
    /// A list begins, which may be an array or an object.
    Open,
    /// The list that was opened last ends as an array.
    Array,
    /// The list that was opened last ends as an object.
    Object,
    /// The answer leaves out the words (32-bit references) of the values before.
    LeaveOut,
}

/// What a word of a row describes, and how often the value is written: as often as the number after
/// `*` says, or once.
fn part_of(word: &[u8]) -> (Part<'_>, u64) {
    let mut name = word;
    let mut times = 1;
    for i in 0..word.len() {
        if word[i] == b'*' {
            name = &word[..i];
            times = long_of(&word[i + 1..]);
            break;
        }
    }
    let part = match name {
        [b'\'', bytes @ ..] => Part::Blob(bytes),
        [b'#', digits @ ..] => Part::Int(long_of(digits)),
        [b'['] | [b'{'] => Part::Open,
        [b']'] => Part::Array,
        [b'}'] => Part::Object,
        [b'~'] => Part::LeaveOut,
        _ => Part::Null,
    };
    (part, times)
}

/// The number of a word; 0 if it is no number.
fn long_of(word: &[u8]) -> u64 {
    match number_of(word) {
        Some(number) => u64::try_from(number).unwrap_or(0),
        None => 0,
    }
}

// ---- a writer

/// A writer, after the values of some words of a row were written with it.
#[derive(Drop)]
struct Written {
    /// The writer of the values.
    writer: Writer,
    /// For each list that has begun and not ended, the words of its entries so far; the outermost
    /// list is first.
    open: Vec<Vec<Val>>,
    /// The words (32-bit references) of the values that are in no list.
    words: Vec<Val>,
}

impl Written {
    /// Writes `times` times the value of a word of a row, or begins a list. A list that ends is
    /// written as a value; if no list has begun, nothing is written.
    fn add(&mut self, alloc: Global, part: Part<'_>, times: u64) -> Result<(), AllocError> {
        match part {
            Part::Open => self.open.push(Vec::new(alloc))?,
            Part::Array | Part::Object => {
                if let Some(entries) = self.open.pop() {
                    self.add_value(part, &entries, times)?;
                }
            }
            Part::LeaveOut => self.words.clear(),
            Part::Null | Part::Int(_) | Part::Blob(_) => self.add_value(part, &[], times)?,
        }
        Ok(())
    }

    /// Writes a value `times` times; a list has these entries. Each time the value becomes an entry
    /// of the list that was begun last, if there is one.
    fn add_value(&mut self, part: Part<'_>, entries: &[Val], times: u64) -> Result<(), AllocError> {
        for _ in 0..times {
            let word = self.write(part, entries)?;
            match self.open.last_mut() {
                Some(list) => list.push(word)?,
                None => self.words.push(word)?,
            }
        }
        Ok(())
    }

    /// Writes a value once, and returns its word. A list has these entries.
    fn write(&mut self, part: Part<'_>, entries: &[Val]) -> Result<Val, AllocError> {
        match part {
            Part::Int(number) => self.writer.int(number),
            Part::Blob(bytes) => self.writer.blob(bytes),
            Part::Array => self.writer.arr(entries),
            Part::Object => self.writer.obj(entries),
            Part::Null | Part::Open | Part::LeaveOut => Ok(Val::of(0)),
        }
    }
}

/// Writes the values that the words of a row describe, from the second word on. Returns the writer,
/// and the word of the last value, or null if there is no value. The question `write` adds the
/// words of the values that are in no list. It leaves out the words of values before a `~`.
pub(crate) fn write_values(
    alloc: Global,
    question: Question,
    words: &Words,
    answer: &mut Answer,
) -> Result<(Writer, Val), AllocError> {
    let written = written_of(alloc, words)?;
    let mut last = Val::of(0);
    for word in &written.words {
        last = *word;
        if let Question::Write = question {
            let number = last.word();
            answer.add_text(format!(in alloc; "{number:08x} "));
        }
    }
    Ok((written.writer, last))
}

/// A writer, after it has written the values that the words of a row describe, from the second word
/// on.
fn written_of(alloc: Global, words: &Words) -> Result<Written, AllocError> {
    let mut written = Written {
        writer: Writer::new(alloc),
        open: Vec::new(alloc),
        words: Vec::new(alloc),
    };
    for i in 1..words.len() {
        let (part, times) = part_of(words.word(i));
        written.add(alloc, part, times)?;
    }
    Ok(written)
}

// ---- a draft

/// Adds to a draft the values that the words of a row describe, from the index `first` on, counted
/// from 0.
fn add_values(draft: &mut Draft, words: &Words, first: usize) -> Result<(), AllocError> {
    for i in first..words.len() {
        let (part, times) = part_of(words.word(i));
        for _ in 0..times {
            match part {
                Part::Null => draft.null(),
                Part::Int(number) => draft.int(number),
                Part::Blob(bytes) => draft.blob(bytes),
                Part::Open => draft.open_list(),
                Part::Array => draft.close_array(),
                Part::Object => draft.close_object(),
                Part::LeaveOut => Ok(()),
            }?;
        }
    }
    Ok(())
}

/// A draft of the values of `draft VALUE ..`, or of one array, which has N times the values of
/// `repeated N VALUE ..`.
pub(crate) fn draft_of(
    alloc: Global,
    question: Question,
    words: &Words,
) -> Result<Draft, AllocError> {
    let mut draft = Draft::new(alloc);
    match question {
        Question::Repeated => {
            draft.open_list()?;
            for _ in 0..long_of(word_at(words, 1)) {
                add_values(&mut draft, words, 2)?;
            }
            draft.close_array()?;
        }
        _ => add_values(&mut draft, words, 1)?,
    }
    Ok(draft)
}
