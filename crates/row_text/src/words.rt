//! Reads parts of a line, for `reader` and `parts`: the words of a command line, as a shell reads
//! them; bytes in groups of hexadecimal digits, which a count may repeat, as in `4144422e
//! 2049*00000000`; and numbers. The forms are in `tests/rows.md`, "Lines".
use crate::row::Trouble;
use base_core::Words;
use std::alloc::Global;

/// The most words that a command line may have: 2^32 - 2, the most that `Words` of `base_core` can
/// have.
const MOST_WORDS: usize = 4_294_967_294;

/// Where the next byte of a command line is.
#[derive(Clone, Copy)]
enum Place {
    /// Between words.
    Between,
    /// In a word, outside of quotations.
    Word,
    /// Between two `'`.
    Quotation,
}

/// The words of a command line, as far as its bytes were read.
#[derive(Drop)]
struct Line {
    /// The complete words.
    words: Words,
    /// The bytes of the last word so far, if the line is within a word.
    word: Vec<u8>,
    /// Where the next byte of the line is.
    place: Place,
}

/// The words of a command line after the program's name, which is `apk`. A blank ends a word;
/// between two `'`, a blank is a byte of the word.
pub(crate) fn words_of(alloc: Global, text: &[u8]) -> Result<Words, Trouble> {
    let Some(rest) = text.strip_prefix(b"apk") else {
        return Err(Trouble::UnknownWord);
    };
    // The name of the program only begins with `apk`.
    if !rest.is_empty() && !rest.starts_with(b" ") {
        return Err(Trouble::UnknownWord);
    }
    let mut line = Line {
        words: Words::new(alloc),
        word: Vec::new(alloc),
        place: Place::Between,
    };
    for byte in rest {
        line.add(*byte)?;
    }
    match line.place {
        Place::Between => {}
        Place::Word => line.end_word()?,
        Place::Quotation => return Err(Trouble::BadQuotation),
    }
    Ok(line.words)
}

impl Line {
    /// Takes the next byte of the line.
    fn add(&mut self, byte: u8) -> Result<(), Trouble> {
        // The arms, in their order: the end and the begin of a quotation, a blank between words, a
        // blank that ends a word, any byte in a quotation, and any other byte of a word.
        match (self.place, byte) {
            (Place::Quotation, b'\'') => self.place = Place::Word,
            (_, b'\'') => self.place = Place::Quotation,
            (Place::Between, b' ') => {}
            (Place::Word, b' ') => self.end_word()?,
            (Place::Quotation, _) => self.word.push(byte)?,
            (_, _) => {
                self.place = Place::Word;
                self.word.push(byte)?;
            }
        }
        Ok(())
    }

    /// Ends the last word, and adds it to the complete words. An empty quotation makes an empty
    /// word.
    fn end_word(&mut self) -> Result<(), Trouble> {
        if self.words.len() >= MOST_WORDS {
            return Err(Trouble::Memory);
        }
        self.words.push(&self.word)?;
        self.word.clear();
        self.place = Place::Between;
        Ok(())
    }
}

/// The part of a text before the first byte `mark`, and the part after it. If the text does not
/// have this byte, these are the whole text and no text.
pub(crate) fn split_text(text: &[u8], mark: u8) -> (&[u8], &[u8]) {
    for i in 0..text.len() {
        if text[i] == mark {
            return (&text[..i], &text[i + 1..]);
        }
    }
    (text, b"")
}

/// Adds the bytes of a line of hexadecimal digits, in groups with blanks between them.
pub(crate) fn add_hex(out: &mut Vec<u8>, line: &[u8]) -> Result<(), Trouble> {
    for group in line.split(|byte| *byte == b' ') {
        add_group(out, group)?;
    }
    Ok(())
}

/// Adds the bytes of a group: an even number of hexadecimal digits, such as `4144`, or such digits
/// after a count and `*`, as in `2049*00`, which adds their bytes 2049 times.
fn add_group(out: &mut Vec<u8>, group: &[u8]) -> Result<(), Trouble> {
    let (count, digits) = split_text(group, b'*');
    // There is no `*`.
    if count.len() == group.len() {
        return add_digits(out, group);
    }
    for _ in 0..number(count)? {
        add_digits(out, digits)?;
    }
    Ok(())
}

/// Adds a byte for each two hexadecimal digits. An odd number of digits is a fault, and so is an
/// upper-case digit.
fn add_digits(out: &mut Vec<u8>, digits: &[u8]) -> Result<(), Trouble> {
    // The value of the first digit of a pair, until its second digit is read.
    let mut high = None;
    for digit in digits {
        let value = match *digit {
            b'0'..=b'9' => *digit - b'0',
            b'a'..=b'f' => *digit - b'a' + 10,
            _ => return Err(Trouble::BadHex),
        };
        match high {
            None => high = Some(value),
            Some(first) => {
                out.push((first << 4) | value)?;
                high = None;
            }
        }
    }
    match high {
        None => Ok(()),
        Some(_) => Err(Trouble::BadHex),
    }
}

/// The decimal number in a text. A text with other bytes than digits, or without bytes, is a fault,
/// and so is a number above 2^64 - 1.
pub(crate) fn number(text: &[u8]) -> Result<u64, Trouble> {
    if text.is_empty() {
        return Err(Trouble::BadNumber);
    }
    let mut number = 0u64;
    for digit in text {
        if !digit.is_ascii_digit() {
            return Err(Trouble::BadNumber);
        }
        // The number with one more digit at its end, or None if it is too great.
        let next = match number.checked_mul(10) {
            Some(tens) => tens.checked_add(u64::from(*digit - b'0')),
            None => None,
        };
        number = match next {
            Some(next) => next,
            None => return Err(Trouble::BadNumber),
        };
    }
    Ok(number)
}

/// The number of a text such as `N at most`.
pub(crate) fn number_at_most(text: &[u8]) -> Result<u64, Trouble> {
    match text.strip_suffix(b" at most") {
        Some(count) => number(count),
        None => Err(Trouble::BadShape),
    }
}
