//! The answer to a question, to which a test program adds bytes and words.
use crate::bytes::Bytes;
use std::alloc::{AllocError, Global};

/// The answer to a question, as a text. Adding to an answer returns nothing, as with `Bytes`.
#[derive(Drop)]
pub struct Answer {
    /// The allocator of the text.
    alloc: Global,
    /// The text so far.
    text: Bytes,
}

impl Answer {
    /// An empty answer.
    pub(crate) fn new(alloc: Global) -> Answer {
        Answer {
            alloc,
            text: Bytes::new(alloc),
        }
    }

    /// The text of the answer.
    ///
    /// # Errors
    ///
    /// `AllocError` if memory ran out while the answer was made.
    pub(crate) fn finish(self) -> Result<Vec<u8>, AllocError> {
        self.text.finish()
    }

    /// Adds bytes.
    pub fn push(&mut self, bytes: &[u8]) {
        self.text.push(bytes)
    }

    /// Adds a word, and a space before the word if the answer is not empty.
    pub fn add_word(&mut self, word: &[u8]) {
        if !self.text.as_slice().is_empty() {
            self.push(b" ");
        }
        self.push(word)
    }

    /// Adds a word `NAME=BYTES`, and a space before the word if the answer is not empty.
    pub fn add_named(&mut self, name: &[u8], bytes: &[u8]) {
        self.add_word(name);
        self.push(b"=");
        self.push(bytes)
    }

    /// Adds the decimal digits of a number.
    pub fn add_number(&mut self, number: u128) {
        let digits = format!(in self.alloc; "{number}");
        self.add_text(digits)
    }

    /// Adds `yes` if `holds`, and else `no`.
    pub fn add_yes_or_no(&mut self, holds: bool) {
        self.push(if holds { b"yes" } else { b"no" })
    }

    /// Adds a text that was formatted, if there was memory for it.
    pub fn add_text(&mut self, text: Result<String, AllocError>) {
        self.text.push_text(text)
    }
}
