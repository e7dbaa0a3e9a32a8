//! The writer of a payload with its limits and its faults, and the container around a payload. A
//! `Draft` of `adb_values` uses the writer. The rules are in `docs/formats.md`, "Canonical layout":
//! the layout below "Values are written depth first", the limits below "A payload has at most", the
//! container below "In a container each block is padded".

ghost use Rattle.std.specs.Prelude.{◌≡◌, ◌<◌, ◌≤◌, ◌+◌, ◌^◌, false, IfOk, IsOk, OnErr, length, vec_capacity};
ghost use Rattle.adb_write.specs.Canonical.{MOST_BYTES, exceeds_a_limit, padding_to_alignment_from_offset, in_place, apart, array_or_object_cell, words_without_last_nulls};
ghost use Rattle.adb_view.specs.Plain.{Plains, int, blob_or_null, array_or_null, trimmed_object_or_null};
ghost use Rattle.adb_write.specs.DepthFirst.{WritesValueDepthFirst, WritesValuesDepthFirst};
ghost use Rattle.adb_write.specs.Writing.{Writing, Grows, empty_writing_counting_root, is_past_limit, call, int_call, blob_call, arr_call, obj_call, finish_result};
ghost use Rattle.adb_write.specs.Items.{list_kind, item_of, HasNumbersInRange};
ghost use Rattle.adb_write.specs.WriterState.{IsFinishResult, IsWordOfEqualItem};
ghost use Rattle.adb_write.specs.File.{file_of};

use crate::item::{ListKind, Parts};
use crate::locator::word_of_locator;
use crate::store::Store;
use adb_block::{BlockKind, block_head, padding_of};
use adb_view::Val;
use std::alloc::{AllocError, Global};
use std::fmt;
use std::marker::Model;
use thiserror::Error;

/// Why `Writer::finish` returns no payload.
#[derive(Clone, Copy, Debug, PartialEq, Eq, Error)]
pub enum WriteFault {
    /// The payload would have more than 268,435,455 bytes or more than 4,194,304 values. `bytes`
    /// and `values` are the payload's numbers of bytes and of values, the root included, just after
    /// the first value that exceeded a limit.
    #[error("a payload of {bytes} bytes and {values} values is too large")]
    TooLarge { bytes: u64, values: u64 },

    /// Out of memory.
    #[error("out of memory")]
    Memory,
}

impl From<AllocError> for WriteFault {
    ghost use Rattle.std.specs.Prelude.{◌≡◌};
    ghost use Rattle.adb_write.specs.declared.writer.WriteFault.TheVariants.{Memory};

    ghost from_gives = { λ _ fault. fault ≡ Memory };

    // Out of memory, as the reason why a writer has no payload.
    fn from(_: AllocError) -> WriteFault {
        WriteFault::Memory
    }
}

/// The most bytes of a payload that is written: 2^28 - 1, since offsets in words have 28 bits.
const MOST_BYTES: u64 = 268_435_455;

/// The most values of a written payload, its root included: as many as a reader accepts
/// (`docs/formats.md`, "The shape").
const MOST_VALUES: u64 = 4_194_304;

/// How many bytes a payload has so far, and how many values.
#[derive(Clone, Copy)]
struct ByteAndValueCounts {
    /// How many bytes there are, including the head.
    pub bytes: u64,
    /// How many values there are, including the root.
    pub values: u64,
}

impl ByteAndValueCounts {
    /// Whether one of the two counts is above its limit.
    fn exceeds_a_limit(self) -> bool
        ensures { result ≡ exceeds_a_limit (self.bytes, self.values) }
    {
        self.bytes > MOST_BYTES || self.values > MOST_VALUES
    }
}

/// The length of a payload's head in bytes: the compatibility version, three ignored bytes, and the
/// root's word.
const HEAD: u64 = 8;

/// Writes the values of one payload. The entries of a list are written before the list, and each
/// call returns the word of its value. A call that runs out of memory leaves the writer unchanged.
/// A call that adds no bytes never runs out of memory.
///
/// A payload has at most 268,435,455 bytes and 4,194,304 values, which are its root and the entries
/// of its lists. The first value that brings a count above its limit is counted, but not written,
/// and its word is NULL. Every later call changes nothing and returns NULL, and `finish` reports
/// the two counts. Contracts see the written items and the counts: `Writing` of `specs/`.
///
/// In the clauses, `ok` says what a call does, by the definition of the layout. `written` says that
/// values which are written depth first have the canonical layout.
#[derive(Drop)]
pub struct Writer {
    /// The payload so far, and the list of the items in it.
    store: Store,
    /// The counts of bytes and values so far. If a value exceeded a limit, these are the counts
    /// just after this value.
    counts: ByteAndValueCounts,
}

impl Model for Writer {
    ghost use Rattle.std.specs.Prelude.{drop};
    ghost use Rattle.adb_write.specs.Writing.{Writing, writing_from_parts};
    ghost use Rattle.std.specs.List.{concat};
    ghost use Rattle.adb_write.specs.WordPages.{pages_of};
    ghost use Rattle.adb_write.specs.WriterState.{IsWriterState, items_of_locators};

    ghost Value = { Writing };

    // In contracts a writer is the payload's bytes after its head of 8 bytes, the items in these
    // bytes, and the two counts. A locator is an entry of the writer's list of items. The list is
    // stored in pages of locators.
    ghost view = { λ w. writing_from_parts (drop 8 w.store.payload.items)
        (items_of_locators (concat (pages_of w.store.words))) w.counts.bytes w.counts.values };

    // At each call, the locators name items of the payload in the order of their keys, and the
    // count of bytes is right unless a limit was passed.
    ghost invariant = { λ w. IsWriterState w.store.payload.items (pages_of w.store.words)
        w.counts.bytes w.counts.values };
}

impl Writer {
    /// A writer that has written nothing.
    pub fn new(alloc: Global) -> Writer
        ensures { result ≡ empty_writing_counting_root }
    {
        Writer {
            store: Store::new(alloc),
            counts: ByteAndValueCounts {
                bytes: HEAD,
                values: 1,
            },
        }
    }

    /// A writer that has written nothing, with memory for a payload of this many bytes. A payload
    /// that outgrows its memory is copied into a larger one.
    ///
    /// # Errors
    ///
    /// Out of memory.
    pub fn with_capacity(alloc: Global, bytes: usize) -> Result<Writer, AllocError>
        // On Ok, nothing has been written.
        ensures empty { IfOk result (λ writer. writer ≡ empty_writing_counting_root) }
        // No memory is needed for no bytes.
        ensures succeeds { bytes ≡ 0 → IsOk result }
    {
        let store = Store::with_capacity(alloc, bytes)?;
        Ok(Writer {
            store,
            counts: ByteAndValueCounts {
                bytes: HEAD,
                values: 1,
            },
        })
    }

    /// Whether a count is above its limit, so that nothing more is written.
    pub fn passes_limit(&self) -> bool
        ensures { result ≡ is_past_limit self.now }
    {
        self.counts.exceeds_a_limit()
    }

    /// Writes an integer: in its word below 2^28, in 32 bits below 2^32, else in 64.
    pub fn int(&mut self, n: u64) -> Result<Val, AllocError>
        // On Ok, the call returns the word and makes the change that the layout defines.
        ensures ok { IfOk result (λ word. (word, self.new) ≡ int_call n self.old) }
        // On Ok, the value is written depth first, and has the returned word.
        ensures written { IfOk result (λ word. WritesValueDepthFirst self.old
            (int n) word self.new) }
        // After an error, nothing has changed.
        ensures err { OnErr result (self.new ≡ self.old) }
        // Only a call that would add bytes can fail.
        ensures wants { OnErr result (Grows self.old (int_call n self.old).1) }
    {
        if n < 1 << 28 {
            // The kind 1 in the top four bits: an integer in the word itself.
            return Ok(self.in_word(0x1000_0000 + n as u32));
        }
        self.add(&Parts::Int(n))
    }

    /// Writes a blob, with its length in one byte below 256 bytes, in two below 65,536, else in
    /// four. An empty one is NULL.
    #[tactic(auto, using(crate::proofs::WriterSteps::blob_null, crate::proofs::Cells::blob_is))]
    pub fn blob(&mut self, bytes: &[u8]) -> Result<Val, AllocError>
        // On Ok, the call returns the word and makes the change that the layout defines.
        ensures ok { IfOk result (λ word. (word, self.new) ≡ blob_call bytes.now self.old) }
        // On Ok, the value is written depth first, and has the returned word.
        ensures written { IfOk result
            (λ word. WritesValueDepthFirst self.old (blob_or_null bytes.now) word self.new) }
        // After an error, nothing has changed.
        ensures err { OnErr result (self.new ≡ self.old) }
        // Only a call that would add bytes can fail.
        ensures wants { OnErr result (Grows self.old (blob_call bytes.now self.old).1) }
    {
        if bytes.is_empty() {
            return Ok(Val::of(0));
        }
        self.add(&Parts::Blob(bytes))
    }

    /// Writes an array. `entries` has words that this writer returned, or NULLs. An empty array is
    /// NULL.
    pub fn arr(&mut self, entries: &[Val]) -> Result<Val, AllocError>
        // On Ok, the call returns the word and makes the change that the layout defines.
        ensures ok { IfOk result (λ word. (word, self.new) ≡ arr_call entries.now self.old) }
        // If the entries were written depth first just before, so is the list with them.
        ensures written { IfOk result (λ word. (vs : Plains) (before : Writing)
            → WritesValuesDepthFirst before vs entries.now self.old
            → WritesValueDepthFirst before (array_or_null vs) word self.new) }
        // After an error, nothing has changed.
        ensures err { OnErr result (self.new ≡ self.old) }
        // Only a call that would add bytes can fail.
        ensures wants { OnErr result (Grows self.old (arr_call entries.now self.old).1) }
    {
        self.list(ListKind::Array, entries)
    }

    /// Writes an object. `fields` has words that this writer returned, or NULLs, one for each field
    /// from the first on. NULLs at the end are dropped, and an object without a value is NULL.
    pub fn obj(&mut self, fields: &[Val]) -> Result<Val, AllocError>
        // On Ok, the call returns the word and makes the change that the layout defines.
        ensures ok { IfOk result (λ word. (word, self.new) ≡ obj_call fields.now self.old) }
        // If the entries were written depth first just before, so is the list with them.
        ensures written { IfOk result (λ word. (vs : Plains) (before : Writing)
            → WritesValuesDepthFirst before vs fields.now self.old
            → WritesValueDepthFirst before (trimmed_object_or_null vs) word self.new) }
        // After an error, nothing has changed.
        ensures err { OnErr result (self.new ≡ self.old) }
        // Only a call that would add bytes can fail.
        ensures wants { OnErr result (Grows self.old (obj_call fields.now self.old).1) }
    {
        self.list(ListKind::Object, trimmed(fields))
    }

    /// The payload with this root. `root` is a word that this writer returned, or NULL. If a limit
    /// was passed, the error has the counts. The error is `Memory` only if nothing was written
    /// before.
    pub fn finish(self, root: Val) -> Result<Vec<u8>, WriteFault>
        ensures { IsFinishResult (λ payload. payload.items) self result (finish_result root self) }
    {
        if self.counts.exceeds_a_limit() {
            return Err(WriteFault::TooLarge {
                bytes: self.counts.bytes,
                values: self.counts.values,
            });
        }
        let store = self.store;
        let mut payload = store.payload;
        if payload.is_empty() {
            payload.resize(HEAD as usize, 0)?;
        }
        // The word of the root is in the bytes 4 to 7 of the head.
        payload[4..8].copy_from_slice(&root.word().to_le_bytes());
        Ok(payload)
    }

    /// Writes an array or an object with these words, as `kind` says. An empty list is NULL.
    #[tactic(auto, using(crate::proofs::WriterSteps::run_null, crate::proofs::Cells::run_is))]
    fn list(&mut self, kind: ListKind, words: &[Val]) -> Result<Val, AllocError>
        // On Ok, the call returns the word and makes the change that the layout defines.
        ensures ok { IfOk result
            (λ word. (word, self.new)
            ≡ call (array_or_object_cell (list_kind kind) words.now) self.old) }
        // After an error, nothing has changed.
        ensures err { OnErr result (self.new ≡ self.old) }
        // Only a call that would add bytes can fail.
        ensures wants { OnErr result
            (Grows self.old (call (array_or_object_cell (list_kind kind) words.now) self.old).1) }
    {
        if words.is_empty() {
            return Ok(Val::of(0));
        }
        self.add(&Parts::List(kind, words))
    }

    /// The word `word`, which itself contains its value, or NULL after a limit was passed.
    #[tactic(auto, unfolding(crate::specs::Writing::call))]
    fn in_word(&self, word: u32) -> Val
        // The result is that of the definition, and the writer is unchanged.
        ensures { (result, self.now) ≡ call (in_place word) self.now }
    {
        if self.counts.exceeds_a_limit() {
            return Val::of(0);
        }
        Val::of(word)
    }

    /// Writes an item, unless an equal item was written before, and returns the item's word. From
    /// the first value on that exceeds a limit, the result is NULL.
    fn add(&mut self, parts: &Parts<'_>) -> Result<Val, AllocError>
        // The integer of the item, if it is one, has 64 bits.
        requires { HasNumbersInRange parts.now }
        // On Ok, the call returns the word and makes the change that the layout defines.
        ensures ok { IfOk result
            (λ word. (word, self.new) ≡ call (apart (item_of parts.now)) self.old) }
        // After an error, nothing has changed.
        ensures err { OnErr result (self.new ≡ self.old) }
        // Only a call that would add bytes can fail.
        ensures wants { OnErr result
            (Grows self.old (call (apart (item_of parts.now)) self.old).1) }
    {
        if self.counts.exceeds_a_limit() {
            return Ok(Val::of(0));
        }
        // If an equal item was written, its word is returned. Otherwise `slot` is where the locator
        // of the new item belongs.
        let slot = match self.store.find(parts) {
            Ok(locator) => return Ok(self.repeat(parts, word_of_locator(locator))),
            Err(slot) => slot,
        };
        // The item is written at the next offset that its alignment allows.
        let before = self.counts;
        let at = before.bytes
            + padding_to_alignment_from_offset(parts.width().len() as u64, before.bytes);
        let counts = ByteAndValueCounts {
            bytes: at + parts.len(),
            values: before.values + parts.entries(),
        };
        // The first value that exceeds a limit is counted, but not written.
        if counts.exceeds_a_limit() {
            self.counts = counts;
            return Ok(Val::of(0));
        }
        // The word has the kind in its top 4 bits, and the offset below them.
        let word = Val::of(parts.kind() * 0x1000_0000 + at as u32);
        self.store.append(parts, at as usize, slot, word)?;
        self.counts = counts;
        Ok(word)
    }

    /// Counts the entries of an item that equals a written item, and returns `word`, the word of
    /// the written item. If the count then exceeds the limit, the result is NULL.
    fn repeat(&mut self, parts: &Parts<'_>, word: Val) -> Val
        // No limit was passed.
        requires fine { is_past_limit self.old ≡ false }
        // The word is that of a written item equal to this one.
        requires found { IsWordOfEqualItem (item_of parts.now) self.old word }
        // The result and the change are those of the definition.
        ensures { (result, self.new) ≡ call (apart (item_of parts.now)) self.old }
    {
        self.counts.values += parts.entries();
        if self.counts.exceeds_a_limit() {
            return Val::of(0);
        }
        word
    }
}

/// How many zeros are between the offset `n` and the next multiple of `align`.
fn padding_to_alignment_from_offset(align: u64, n: u64) -> u64
    // The alignment is not 0.
    requires { 0 < align }
    ensures value { result ≡ padding_to_alignment_from_offset align n }
    // There are fewer zeros than the alignment.
    ensures below { result < align }
{
    (align - n % align) % align
}

/// The words of an object's fields without the NULLs at their end.
#[tactic(auto, using(crate::proofs::Cells::trimmed_null, crate::proofs::Cells::trimmed_some))]
fn trimmed(fields: &[Val]) -> &[Val]
    ensures { result.now ≡ words_without_last_nulls fields.now }
{
    let mut len = fields.len();
    while len > 0 && fields[len - 1].is_null() {
        len -= 1;
    }
    &fields[..len]
}

/// How many bytes the header of a container has: the four bytes `ADB.`, and the schema in four.
const FILE_HEADER: usize = 8;

/// The container of this schema with one block, which contains the payload, and no signatures
/// (apk-v3(5)). The block is padded with zeros.
pub fn file_of(alloc: Global, schema: u32, payload: &[u8]) -> Result<Vec<u8>, AllocError>
    // The payload has at most as many bytes as the writer allows.
    requires { length payload.now ≤ MOST_BYTES }
    // On Ok, the bytes are those of the defined container.
    ensures { IfOk result (λ file. file.items ≡ file_of schema payload.now) }
{
    let head = block_head(BlockKind::Adb, payload.len() as u64);
    let head = head.bytes();
    let end = FILE_HEADER + head.len() + payload.len();
    let len = end + padding_of(head.len() + payload.len());
    let mut file = Vec::with_capacity(alloc, len)?;
    file.extend_from_slice(b"ADB.")?;
    file.extend_from_slice(&schema.to_le_bytes())?;
    file.extend_from_slice(head)?;
    file.extend_from_slice(payload)?;
    file.resize(len, 0)?;
    Ok(file)
}

/// The container that `file_of` makes of a payload, made in the memory of the payload.
///
/// # Errors
///
/// Out of memory.
pub fn file_in_place(schema: u32, payload: Vec<u8>) -> Result<Vec<u8>, AllocError>
    // The payload has at most as many bytes as the writer allows.
    requires { length payload.items ≤ MOST_BYTES }
    // On Ok, the bytes are those of the defined container.
    ensures bytes { IfOk result (λ file. file.items ≡ file_of schema payload.items) }
    // If the memory of the payload has room for the file, the call succeeds.
    ensures succeeds { length (file_of schema payload.items) ≤ vec_capacity payload → IsOk result }
{
    let head = block_head(BlockKind::Adb, payload.len() as u64);
    let head = head.bytes();
    let end = FILE_HEADER + head.len() + payload.len();
    let len = end + padding_of(head.len() + payload.len());
    let mut file = payload;
    file.extend_from_slice(b"ADB.")?;
    file.extend_from_slice(&schema.to_le_bytes())?;
    file.extend_from_slice(head)?;
    file.rotate_right(FILE_HEADER + head.len());
    file.resize(len, 0)?;
    Ok(file)
}
