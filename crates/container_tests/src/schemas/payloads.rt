//! Payloads, made from the words of a row in another layout than the writer's. The 32-bit words of
//! values are in `docs/formats.md`, "Values"; `tests/lines.md` describes how a row writes a value.
use crate::schemas::words::int_of;
use adb_schema::Which;
use base_core::Words;
use row_lines::{Bytes, value_named};
use std::alloc::{AllocError, Global};

// The kind (the top four bits of a word) of a blob whose length is stored in two bytes.
const TEXT: u32 = 0x9000_0000;

// The kind of an array, in the top four bits of a word.
const ARRAY: u32 = 0xd000_0000;

// The kind of an object, in the top four bits of a word.
const OBJECT: u32 = 0xe000_0000;

/// The kind (the top four bits) of an integer that is stored in its word; all numbers of rows are
/// small enough for this.
const INT: u32 = 0x1000_0000;

/// The length in bytes of the head of a payload, which precedes the first value.
const HEAD: usize = 8;

// The names of tables in rows; `rights` is an access list.
#[rattlefmt::skip]
const TABLES: [(&[u8], Which); 10] = [
    (b"dependency", Which::Dep),
    (b"rights", Which::Acl),
    (b"info", Which::PkgInfo),
    (b"file", Which::File),
    (b"folder", Which::Dir),
    (b"scripts", Which::Scripts),
    (b"package", Which::Package),
    (b"index", Which::Index),
    (b"database", Which::Idb),
    (b"intent", Which::Intent),
];

/// The table of this name in a row; that of packages if the name is unknown.
pub(crate) fn table_of(name: &[u8]) -> Which {
    value_named(&TABLES, name).unwrap_or(Which::Package)
}

/// A payload under construction: the values after its head, the words of the arrays and objects
/// that are not yet complete, and the word of the root.
#[derive(Drop)]
struct Payload {
    /// The bytes after the head.
    values: Bytes,
    /// The words of the arrays and objects that are not yet complete, the innermost last.
    open: Vec<Vec<u32>>,
    /// The word that refers to the root.
    root: u32,
}

/// The payload of the value in the words of a row from the index `first` on: `.` is null, `#` and a
/// number an integer, `'` and bytes a text; `[` and `]` enclose an array, `{` and `}` an object.
pub(crate) fn payload_of(
    alloc: Global,
    words: &Words,
    first: usize,
) -> Result<Vec<u8>, AllocError> {
    let mut payload = Payload {
        values: Bytes::new(alloc),
        open: Vec::new(alloc),
        root: 0,
    };
    for i in first..words.len() {
        payload.add(alloc, words.word(i))?;
    }
    let mut bytes = Bytes::new(alloc);
    // The head: four zero bytes, and the word of the root.
    bytes.push(&[0; 4]);
    bytes.push(&payload.root.to_le_bytes());
    bytes.push_made(payload.values.finish());
    bytes.finish()
}

impl Payload {
    /// Adds a word of a row: `{` and `[` begin an object or an array, `}` and `]` end it, `'` is a
    /// text, `#` an integer, and any other word null.
    fn add(&mut self, alloc: Global, word: &[u8]) -> Result<(), AllocError> {
        match word {
            [b'{'] | [b'['] => {
                self.open.push(Vec::new(alloc))?;
                Ok(())
            }
            [b'}'] => self.close(OBJECT),
            [b']'] => self.close(ARRAY),
            [b'\'', text @ ..] => self.add_text(text),
            [b'#', number @ ..] => self.add_entry(INT + int_of(number) % INT),
            _ => self.add_entry(0),
        }
    }

    /// The word that refers to the next value to be written, which is of this kind: the kind and
    /// the offset. (The remainder only keeps the sum from overflowing.)
    fn next_word(&self, kind: u32) -> u32 {
        kind.wrapping_add((self.values.as_slice().len() % 0x0100_0000 + HEAD) as u32)
    }

    /// Writes a text after its length, which always has two bytes here, and adds its word to the
    /// array or object that was begun last.
    fn add_text(&mut self, text: &[u8]) -> Result<(), AllocError> {
        let word = self.next_word(TEXT);
        let len = (text.len() % 65_536) as u16;
        self.values.push(&len.to_le_bytes());
        self.values.push(text);
        self.add_entry(word)
    }

    /// Ends the array or object that was begun last: writes its words, and adds the word of the
    /// whole to the array or object around it. `kind` says which of the two it is.
    fn close(&mut self, kind: u32) -> Result<(), AllocError> {
        let Some(entries) = self.open.pop() else {
            return Ok(());
        };
        let word = self.next_word(kind);
        add_run(&mut self.values, &entries);
        self.add_entry(word)
    }

    /// Adds a word to the array or object that was begun last; if none was begun, the word is that
    /// of the root.
    fn add_entry(&mut self, word: u32) -> Result<(), AllocError> {
        match self.open.last_mut() {
            Some(entries) => entries.push(word)?,
            None => self.root = word,
        }
        Ok(())
    }
}

/// Writes the words of an array or of an object: first their count, which counts itself too, and
/// then the words.
fn add_run(bytes: &mut Bytes, entries: &[u32]) {
    // The remainder only keeps the sum from overflowing; no row has so many words.
    let count = (entries.len() % 65_536) as u32 + 1;
    bytes.push(&count.to_le_bytes());
    for entry in entries {
        bytes.push(&entry.to_le_bytes());
    }
}

/// A payload whose root is an object with the words `entries`, followed by the bytes `more`.
pub(crate) fn object_payload(
    alloc: Global,
    entries: &[u32],
    more: &[u8],
) -> Result<Vec<u8>, AllocError> {
    let mut payload = Bytes::new(alloc);
    // The head, with the word of the root: an object at the offset 8.
    payload.push(b"\0\0\0\0\x08\0\0\xe0");
    add_run(&mut payload, entries);
    payload.push(more);
    payload.finish()
}

/// A payload whose root is an object with the numbers that the words of a row from the index 3 on
/// are, followed by the bytes `more`.
pub(crate) fn row_payload(
    alloc: Global,
    words: &Words,
    more: &[u8],
) -> Result<Vec<u8>, AllocError> {
    let mut entries = Vec::new(alloc);
    for i in 3..words.len() {
        entries.push(int_of(words.word(i)))?;
    }
    object_payload(alloc, &entries, more)
}
