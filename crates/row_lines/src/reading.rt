//! Reads the words of a question, with their escapes, and numbers. The forms are in
//! `tests/lines.md`: the table of which text denotes which byte, and numbers.
use base_core::Words;
use std::alloc::{AllocError, Global};

/// The most words of a question that are read; further words are skipped. No row has as many.
const MOST_WORDS: usize = 100_000;

/// The most times that a byte is repeated, so that a row cannot ask for all memory.
const MOST_TIMES: usize = 2_000_000;

/// The words of a question, which are between spaces.
pub(crate) fn words_of(alloc: Global, question: &[u8]) -> Result<Words, AllocError> {
    let mut words = Words::new(alloc);
    for part in question.split(|byte| *byte == b' ') {
        if !part.is_empty() && words.len() < MOST_WORDS {
            let word = bytes_of(alloc, part)?;
            words.push(&word)?;
        }
    }
    Ok(words)
}

/// The word with the index `i`, counted from 0, or an empty word if there are fewer words.
pub fn word_at(words: &Words, i: usize) -> &[u8] {
    if i < words.len() {
        return words.word(i);
    }
    b""
}

/// A copy of the words from the index `first` on, counted from 0.
pub fn words_behind(alloc: Global, words: &Words, first: usize) -> Result<Words, AllocError> {
    let mut rest = Words::new(alloc);
    for i in first..words.len() {
        if rest.len() < MOST_WORDS {
            rest.push(words.word(i))?;
        }
    }
    Ok(rest)
}

/// The value that a table of pairs (a word and its value) has for this word, or None if the table
/// does not have the word.
pub fn value_named<T: Copy>(table: &[(&[u8], T)], word: &[u8]) -> Option<T> {
    for (name, value) in table {
        if *name == word {
            return Some(*value);
        }
    }
    None
}

/// The number that a word gives in decimal digits, or in hexadecimal digits after `0x`. None if the
/// word is no such number.
pub fn number_of(word: &[u8]) -> Option<u128> {
    match word.strip_prefix(b"0x") {
        Some(digits) => number_in(digits, 16),
        None => number_in(word, 10),
    }
}

/// The number that digits form in the base `base`. None if there are no digits, if a byte is no
/// digit of the base, or if the number has more than 128 bits.
fn number_in(digits: &[u8], base: u8) -> Option<u128> {
    if digits.is_empty() {
        return None;
    }
    let mut number = 0u128;
    for digit in digits {
        let value = digit_of(*digit)?;
        if value >= base {
            return None;
        }
        number = number
            .checked_mul(u128::from(base))?
            .checked_add(u128::from(value))?;
    }
    Some(number)
}

/// Which part of an escape, if any, the next byte of a text belongs to.
#[derive(Clone, Copy)]
enum Place {
    /// No escape has begun.
    Plain,
    /// The byte is after a backslash.
    Backslash,
    /// The byte is after `\x`.
    HighDigit,
    /// The byte is after `\x` and a digit of this value.
    LowDigit(u8),
    /// The byte is after `\{` and the digits of this number.
    Count(usize),
}

/// The bytes that the beginning of a text with escapes denotes.
#[derive(Drop)]
struct Unescaped {
    /// The denoted bytes so far.
    bytes: Vec<u8>,
    /// Which part of an escape, if any, the next byte of the text belongs to.
    place: Place,
}

/// The bytes that a text with escapes denotes. `\n` is a line end, `\s` a space, `\e` no byte, and
/// `\x` with two hexadecimal digits a byte. `\{n}` repeats the byte before it, so that it is there
/// n times. A backslash before any other byte denotes this byte.
pub(crate) fn bytes_of(alloc: Global, text: &[u8]) -> Result<Vec<u8>, AllocError> {
    let mut unescaped = Unescaped {
        bytes: Vec::new(alloc),
        place: Place::Plain,
    };
    for byte in text {
        unescaped.add(*byte)?;
    }
    Ok(unescaped.bytes)
}

impl Unescaped {
    /// Takes the next byte of the text. The table in `tests/lines.md` says what escapes denote.
    fn add(&mut self, byte: u8) -> Result<(), AllocError> {
        match (self.place, byte) {
            (Place::Plain, b'\\') => self.place = Place::Backslash,
            (Place::Plain, _) => self.add_times(1, byte)?,
            (Place::Backslash, b'x') => self.place = Place::HighDigit,
            (Place::Backslash, b'{') => self.place = Place::Count(0),
            (Place::Backslash, _) => self.add_escape(byte)?,
            (Place::HighDigit, _) => self.place = Place::LowDigit(digit_value(byte)),
            (Place::LowDigit(high), _) => self.add_times(1, (high << 4) | digit_value(byte))?,
            (Place::Count(times), b'}') => self.repeat(times)?,
            (Place::Count(times), _) => self.place = Place::Count(next_count(times, byte)),
        }
        Ok(())
    }

    /// Adds the byte that a backslash and this byte denote, or none for `\e`.
    fn add_escape(&mut self, byte: u8) -> Result<(), AllocError> {
        match byte {
            b'e' => self.add_times(0, byte),
            b'n' => self.add_times(1, b'\n'),
            b's' => self.add_times(1, b' '),
            _ => self.add_times(1, byte),
        }
    }

    /// Repeats the last byte, so that the bytes end with it `times` times, and ends the escape.
    fn repeat(&mut self, times: usize) -> Result<(), AllocError> {
        match self.bytes.pop() {
            Some(byte) => self.add_times(times, byte),
            None => self.add_times(0, 0),
        }
    }

    /// Adds a byte `times` times, and ends the escape.
    fn add_times(&mut self, times: usize, byte: u8) -> Result<(), AllocError> {
        for _ in 0..times {
            self.bytes.push(byte)?;
        }
        self.place = Place::Plain;
        Ok(())
    }
}

/// A count with one more digit, up to the most times that a byte is repeated.
fn next_count(count: usize, digit: u8) -> usize {
    let tens = count.saturating_mul(10);
    tens.saturating_add(digit_value(digit) as usize)
        .min(MOST_TIMES)
}

/// The value of a hexadecimal digit. Any other byte counts as 0: a row with a bad escape fails.
fn digit_value(digit: u8) -> u8 {
    digit_of(digit).unwrap_or(0)
}

/// The value of a lower-case hexadecimal digit. None for any other byte.
fn digit_of(digit: u8) -> Option<u8> {
    match digit {
        b'0'..=b'9' => Some(digit - b'0'),
        b'a'..=b'f' => Some(digit - b'a' + 10),
        _ => None,
    }
}
