//! Writes the values of a container that a row describes.

use adb_view::Val;
use adb_write::{Writer, file_in_place};
use row_lines::Bytes;
use std::alloc::{AllocError, Global};

/// The most bytes of a payload (`docs/formats.md`, "Canonical layout").
const MOST_BYTES: usize = 268_435_455;

/// The bytes before the text of a link's target (`docs/formats.md`, "The texts", field 406).
const LINK: &[u8] = b"\x00\xa0";

/// The values of a container, which are written one after another. If memory runs out, a value is
/// null, and `finish` fails. So writing a value returns only its word (32-bit reference).
#[derive(Drop)]
pub(crate) struct Values {
    /// The allocator of the values.
    pub alloc: Global,
    /// The writer of the values.
    writer: Writer,
    /// Whether there was memory for all values.
    outcome: Result<(), AllocError>,
}

impl Values {
    /// No values yet.
    pub(crate) fn new(alloc: Global) -> Values {
        Values {
            alloc,
            writer: Writer::new(alloc),
            outcome: Ok(()),
        }
    }

    /// The container with this root value. Its payload has all values. A payload that is too large
    /// counts as out of memory.
    pub(crate) fn finish(self, root: Val, schema: u32) -> Result<Vec<u8>, AllocError> {
        self.outcome?;
        match self.writer.finish(root) {
            Ok(payload) if payload.len() <= MOST_BYTES => file_in_place(schema, payload),
            _ => Err(AllocError),
        }
    }

    /// Writes a text or a digest.
    pub(crate) fn blob(&mut self, bytes: &[u8]) -> Val {
        let value = self.writer.blob(bytes);
        self.written(value)
    }

    /// Writes a number; 0 is written as null.
    pub(crate) fn number(&mut self, number: u64) -> Val {
        if number == 0 {
            return Val::of(0);
        }
        let value = self.writer.int(number);
        self.written(value)
    }

    /// Writes the target of a link, given its text.
    pub(crate) fn link(&mut self, text: &[u8]) -> Val {
        let mut target = Bytes::new(self.alloc);
        target.push(LINK);
        target.push(text);
        match target.finish() {
            Ok(target) => self.blob(&target),
            Err(fault) => self.written(Err(fault)),
        }
    }

    /// Writes a list of values.
    pub(crate) fn array(&mut self, entries: &[Val]) -> Val {
        let value = self.writer.arr(entries);
        self.written(value)
    }

    /// Writes an object with the values of its fields.
    pub(crate) fn object(&mut self, fields: &[Val]) -> Val {
        let value = self.writer.obj(fields);
        self.written(value)
    }

    /// Adds a value to a list of values.
    pub(crate) fn add(&mut self, list: &mut Vec<Val>, value: Val) {
        if list.push(value).is_err() {
            self.outcome = Err(AllocError);
        }
    }

    /// The value that was written, or null if there was no memory for it.
    fn written(&mut self, value: Result<Val, AllocError>) -> Val {
        match value {
            Ok(value) => value,
            Err(fault) => {
                self.outcome = Err(fault);
                Val::of(0)
            }
        }
    }
}
