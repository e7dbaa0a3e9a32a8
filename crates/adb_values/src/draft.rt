//! A payload under construction (a builder), to which values are added one after another. Makers of
//! packages, indexes, databases and journal entries use it. The layout is in `docs/formats.md`,
//! "Canonical layout" ("Values are written depth first"); the limits below "A payload has at most".
//! In which order calls are made is described in the README of this crate.

ghost use Rattle.std.specs.Prelude.{◌≡◌, ℕ, ◌<◌, ◌≤◌, List, ◌∷◌, ◌++◌, [], length, take, true, false, IfOk, IsOk, OnErr, OnOk, vec_capacity, vec_len};
ghost use Rattle.adb_view.specs.Plain.{Plain, Plains, array_or_null, blob_or_null, int, null, trimmed_object_or_null};
ghost use Rattle.adb_values.specs.Drafts.{empty_draft, draft_with_open_list, draft_with, draft_with_all, DraftState};
ghost use Rattle.adb_values.specs.LastList.{last_open_list_start, last_word};
ghost use Rattle.adb_values.specs.Words.{HasBlob};
ghost use Rattle.adb_values.specs.Written.{IsWrittenAs};
ghost use Rattle.adb_write.specs.Canonical.{payload_or_counts_at_overflow, MOST_BYTES};
ghost use Rattle.adb_write.specs.Writing.{is_past_limit};

use adb_view::Val;
use adb_write::{WriteFault, Writer};
use std::alloc::{AllocError, Global};
use std::marker::Model;

/// A draft: the plain values that were added, and the lists that are open, which means that more
/// entries may be added to them. A call that runs out of memory leaves the draft unchanged.
#[derive(Drop)]
pub struct Draft {
    /// The writer of the values.
    writer: Writer,
    /// The words of the values that are in no closed list.
    words: Vec<Val>,
    /// For each open list, in the order of opening, how many of `words` were added before it.
    starts: Vec<usize>,
}

impl Model for Draft {
    ghost use Rattle.adb_values.specs.Drafts.{draft_from_parts, DraftState};
    ghost use Rattle.adb_write.specs.Again.{HasAllItemsUnlessPastLimit};

    ghost Value = { DraftState };

    // In contracts a draft is the state of its writer, the words, and the starts of open lists.
    ghost view = { λ d. draft_from_parts d.writer d.words.items d.starts.items };

    // The payload contains all of each written item, unless a limit was passed.
    ghost invariant = { λ d. HasAllItemsUnlessPastLimit d.writer };
}

impl Draft {
    /// A draft without a value.
    pub fn new(alloc: Global) -> Draft
        ensures { result ≡ empty_draft }
    {
        Draft {
            writer: Writer::new(alloc),
            words: Vec::new(alloc),
            starts: Vec::new(alloc),
        }
    }

    /// A draft without a value, with memory for a payload of this many bytes.
    ///
    /// # Errors
    ///
    /// Out of memory.
    pub fn with_capacity(alloc: Global, bytes: usize) -> Result<Draft, AllocError>
        // On Ok, the draft has no value.
        ensures empty { IfOk result (λ draft. draft ≡ empty_draft) }
        // No memory is needed for no bytes.
        ensures succeeds { bytes ≡ 0 → IsOk result }
    {
        let writer = Writer::with_capacity(alloc, bytes)?;
        Ok(Draft {
            writer,
            words: Vec::new(alloc),
            starts: Vec::new(alloc),
        })
    }

    /// Adds a Null.
    pub fn null(&mut self) -> Result<(), AllocError>
        // On Ok, the draft has one more value, Null.
        ensures ok { OnOk result (self.new ≡ draft_with null self.old) }
        // After an error, nothing has changed.
        ensures err { OnErr result (self.new ≡ self.old) }
    {
        self.words.push(Val::of(0))?;
        Ok(())
    }

    /// Adds an integer.
    pub fn int(&mut self, n: u64) -> Result<(), AllocError>
        // On Ok, the draft has one more value, the integer.
        ensures ok { OnOk result (self.new ≡ draft_with (int n) self.old) }
        // After an error, nothing has changed.
        ensures err { OnErr result (self.new ≡ self.old) }
    {
        self.words.reserve(1)?;
        let word = self.writer.int(n)?;
        self.words.push(word)?;
        Ok(())
    }

    /// Adds a blob; an empty one is Null.
    pub fn blob(&mut self, bytes: &[u8]) -> Result<(), AllocError>
        // On Ok, the draft has one more value, the blob.
        ensures ok { OnOk result (self.new ≡ draft_with (blob_or_null bytes.now) self.old) }
        // After an error, nothing has changed.
        ensures err { OnErr result (self.new ≡ self.old) }
    {
        self.blob_word(bytes)?;
        Ok(())
    }

    /// Adds a blob, as `blob` does, and returns the blob's word, by which `blob_again` adds it
    /// again.
    pub fn blob_word(&mut self, bytes: &[u8]) -> Result<Val, AllocError>
        // On Ok, the draft has one more value, the blob.
        ensures ok { OnOk result (self.new ≡ draft_with (blob_or_null bytes.now) self.old) }
        // After an error, nothing has changed.
        ensures err { OnErr result (self.new ≡ self.old) }
        // On Ok, the returned word is that of the blob in the draft.
        ensures word { IfOk result (λ word. HasBlob self.new bytes.now word) }
    {
        self.words.reserve(1)?;
        let word = self.writer.blob(bytes)?;
        self.words.push(word)?;
        Ok(word)
    }

    /// Adds the blob that has the word `word` in this draft once more, without reading its bytes.
    pub fn blob_again(&mut self, word: Val) -> Result<(), AllocError>
        // On Ok, if the word is that of a blob, the draft has this blob as one more value.
        ensures ok { OnOk result ((bytes : List ℕ) → HasBlob self.old bytes word
            → self.new ≡ draft_with (blob_or_null bytes) self.old) }
        // After an error, nothing has changed.
        ensures err { OnErr result (self.new ≡ self.old) }
    {
        let word = word_unless_over(&self.writer, word);
        self.words.push(word)?;
        Ok(())
    }

    /// Opens a list, to which the following values are added until it is closed.
    pub fn open_list(&mut self) -> Result<(), AllocError>
        // On Ok, the draft has one more open list.
        ensures ok { OnOk result (self.new ≡ draft_with_open_list self.old) }
        // After an error, nothing has changed.
        ensures err { OnErr result (self.new ≡ self.old) }
    {
        self.starts.push(self.words.len())?;
        Ok(())
    }

    /// Closes the list that was opened last: it becomes an array of the values that were added
    /// since. An empty array is Null.
    pub fn close_array(&mut self) -> Result<(), AllocError>
        // On Ok, the list of all values `vs` since it was opened is one value of the draft.
        ensures ok { OnOk result ((vs : Plains) (before : DraftState)
            → self.old ≡ draft_with_all vs (draft_with_open_list before)
            → self.new ≡ draft_with (array_or_null vs) before) }
        // After an error, nothing has changed.
        ensures err { OnErr result (self.new ≡ self.old) }
    {
        self.words.reserve(1)?;
        // The words from `start` on are those of the list's values.
        let start = self.last_open_list_start();
        let word = self.writer.arr(&self.words[start..])?;
        replace_from(&mut self.words, start, word);
        self.starts.pop();
        Ok(())
    }

    /// Closes the list that was opened last: it becomes an object of the values that were added
    /// since, one for each field from the first on. Nulls at the end are dropped, and an object
    /// without a value is Null.
    pub fn close_object(&mut self) -> Result<(), AllocError>
        // On Ok, the list of all values `vs` since it was opened is one value of the draft.
        ensures ok { OnOk result ((vs : Plains) (before : DraftState)
            → self.old ≡ draft_with_all vs (draft_with_open_list before)
            → self.new ≡ draft_with (trimmed_object_or_null vs) before) }
        // After an error, nothing has changed.
        ensures err { OnErr result (self.new ≡ self.old) }
    {
        self.words.reserve(1)?;
        // The words from `start` on are those of the list's values.
        let start = self.last_open_list_start();
        let word = self.writer.obj(&self.words[start..])?;
        replace_from(&mut self.words, start, word);
        self.starts.pop();
        Ok(())
    }

    /// How many words precede the list that was opened last; 0 if no list is open.
    fn last_open_list_start(&self) -> usize
        // The number is that of the definition.
        ensures is { result ≡ last_open_list_start self.now }
        // The result is at most the number of words.
        ensures within { result ≤ length self.now.words }
    {
        let len = self.words.len();
        match self.starts.last() {
            Some(start) => (*start).min(len),
            None => 0,
        }
    }

    /// Ends the draft. The result is the payload whose root is the only value of the draft, or the
    /// counts just after the first value that exceeded a limit.
    pub fn finish(self) -> Result<Vec<u8>, WriteFault>
        // If `v` is the only value of the draft, the result is its payload, or the overflow.
        ensures written { (v : Plain) → self ≡ draft_with v empty_draft
            → IsWrittenAs (λ payload. payload.items) result (payload_or_counts_at_overflow v) }
        // If `v` is the only value of the draft, the payload is within the limit of bytes.
        ensures short { (v : Plain) → self ≡ draft_with v empty_draft
            → IfOk result (λ payload. length payload.items ≤ MOST_BYTES) }
    {
        let root = last_word(&self.words);
        let writer = self.writer;
        writer.finish(root)
    }
}

/// The word `word`, or NULL if the writer passed a limit, as the calls of a writer return it.
fn word_unless_over(writer: &Writer, word: Val) -> Val
    // Below the limits the word is returned.
    ensures within { is_past_limit writer.now ≡ false → result ≡ word }
    // After a limit was passed, NULL is returned.
    ensures over { is_past_limit writer.now ≡ true → result ≡ 0 }
{
    if writer.passes_limit() {
        return Val::of(0);
    }
    word
}

/// Replaces the words from `start` on, which are those of a list's values, by `word`, the word of
/// the closed list.
fn replace_from(words: &mut Vec<Val>, start: usize, word: Val)
    // There is room for one more word.
    requires room { vec_len words.old < vec_capacity words.old }
    ensures { words.new.items ≡ take start words.old.items ++ word ∷ [] }
{
    words.truncate(start);
    // Room was reserved before, so the push cannot fail.
    if words.push(word).is_err() {
        unreachable!();
    }
}

/// The last of some words, which is that of the root if the draft is finished; NULL without words.
fn last_word(words: &[Val]) -> Val
    ensures { result ≡ last_word words.now }
{
    match words.last() {
        Some(word) => *word,
        None => Val::of(0),
    }
}
