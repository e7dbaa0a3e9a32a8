//! The outputs to which `block.rt` and `line.rt` write a text: its bytes, or only their count. The
//! README of this crate says when a text is counted first; no document has a rule for it. The
//! contracts are those of `Out` and `BlobOut`. The form of a text or a hash in its line is defined
//! in `docs/formats.md`, "Dump text".

ghost use Rattle.std.specs.Prelude.{◌≡◌, ℕ, ◌+◌, ◌-◌, List, [], ◌∷◌, IfOk, OnOk, length};
ghost use Rattle.std.specs.Vec.{vec_capacity};
ghost use Rattle.std.specs.BTreeMap.{get};
ghost use Rattle.std.specs.Ordering.{nat_cmp};
ghost use Rattle.hex.specs.Hex.{encode_lower};
ghost use Rattle.adb_view.specs.Adb.{payload_of};
ghost use Rattle.adb_dump.specs.Dump.{bare_or_quoted_text};
ghost use Rattle.adb_dump.specs.Out.{AreLineLengths, Puts, PutsForAnyPayload};
ghost use Rattle.adb_view.specs.Values.{text_in, value_at};
ghost use Rattle.adb_view.specs.declared.tables.Kind.TheVariants as Kinds;

use crate::line::{write_hex, write_text};
use adb_view::{Adb, Val};
use std::alloc::{AllocError, Global};
use std::collections::BTreeMap;

/// The most bytes of a text whose length in a line is counted wherever it occurs; that of a longer
/// text is remembered. Any number is correct; with a greater number counting takes more time, with
/// a smaller one more memory.
const SHORT: usize = 64;

/// An output, to which bytes are appended.
pub(crate) trait Out {
    ghost use Rattle.std.specs.Prelude.{ℕ, List};

    /// `holds payload out bytes`: exactly `bytes` were written to `out`, if texts are those of this
    /// payload.
    ghost holds: { List ℕ → Self → List ℕ → Type 0 };

    /// Appends bytes.
    fn put(&mut self, bytes: &[u8]) -> Result<(), AllocError>
        // On Ok, these bytes are added to those that were written.
        ensures { OnOk result (PutsForAnyPayload holds self.old self.new bytes.now) };

    /// Appends a byte.
    fn put_byte(&mut self, byte: u8) -> Result<(), AllocError>
        // On Ok, this byte is added to those that were written.
        ensures { OnOk result (PutsForAnyPayload holds self.old self.new (byte ∷ [])) };
}

/// An output for texts and hashes of a payload, as they are written in a line.
pub(crate) trait BlobOut: Out {
    /// Appends the text of a word as it is written in a line: with quotes if it needs them.
    fn put_text(&mut self, adb: Adb<'_>, word: Val, text: &[u8]) -> Result<(), AllocError>
        // These bytes are the text of the word.
        requires { text.now ≡ text_in (value_at (payload_of adb) Kinds.Text word) }
        // On Ok, the form of the text in a line is added to what was written.
        ensures { OnOk result (Puts (Self.holds (payload_of adb.entry)) self.old self.new
            (bare_or_quoted_text text.now)) };

    /// Puts a hash as it is in a line, in hexadecimal digits.
    fn put_hash(&mut self, hash: &[u8]) -> Result<(), AllocError>
        // On Ok, two digits for each byte are added to what was written.
        ensures { OnOk result (PutsForAnyPayload Self.holds self.old self.new
            (encode_lower hash.now)) };
}

/// The bytes themselves, in memory that grows on demand, or was allocated for all of them.
impl Out for Vec<u8> {
    ghost use Rattle.std.specs.Prelude.{◌≡◌};

    // What was written are the items of the vector.
    ghost holds = { λ _ out bytes. out.items ≡ bytes };

    /// Appends bytes; memory grows if there is no room for them.
    fn put(&mut self, bytes: &[u8]) -> Result<(), AllocError> {
        self.extend_from_slice(bytes)
    }

    // Appends a byte; memory grows if there is no room for it.
    fn put_byte(&mut self, byte: u8) -> Result<(), AllocError> {
        self.push(byte)?;
        Ok(())
    }
}

impl BlobOut for Vec<u8> {
    // Appends the text as it is written in a line.
    fn put_text(&mut self, _adb: Adb<'_>, _word: Val, text: &[u8]) -> Result<(), AllocError> {
        write_text(self, text)
    }

    // Appends the hash as it is written in a line.
    fn put_hash(&mut self, hash: &[u8]) -> Result<(), AllocError> {
        write_hex(self, hash)
    }
}

/// The bytes themselves, in a fixed amount of memory, which never grows.
#[derive(Drop)]
pub(crate) struct Room {
    /// The bytes that were written.
    pub(crate) bytes: Vec<u8>,
}

impl Room {
    /// An output without bytes, with memory for this many.
    pub(crate) fn new(alloc: Global, bytes: usize) -> Result<Room, AllocError>
        ensures { IfOk result (λ room. room.bytes.items ≡ []) }
    {
        Ok(Room {
            bytes: Vec::with_capacity(alloc, bytes)?,
        })
    }

    /// How many more bytes fit.
    #[inline(always)]
    fn left(&self) -> usize
        ensures { result ≡ vec_capacity self.now.bytes - length self.now.bytes.items }
    {
        self.bytes.capacity().saturating_sub(self.bytes.len())
    }
}

impl Out for Room {
    ghost use Rattle.std.specs.Prelude.{◌≡◌};

    // What was written are the bytes of `Room`.
    ghost holds = { λ _ out bytes. out.bytes.items ≡ bytes };

    /// Appends bytes, and fails as out of memory if there is no room for them.
    #[inline(always)]
    fn put(&mut self, bytes: &[u8]) -> Result<(), AllocError> {
        if bytes.len() > self.left() {
            return Err(AllocError);
        }
        self.bytes.extend_from_slice(bytes)
    }

    /// Appends a byte, and fails as out of memory if there is no room for it.
    #[inline(always)]
    fn put_byte(&mut self, byte: u8) -> Result<(), AllocError> {
        if self.left() == 0 {
            return Err(AllocError);
        }
        self.bytes.push(byte)?;
        Ok(())
    }
}

impl BlobOut for Room {
    // Appends the text as it is written in a line.
    #[inline(always)]
    fn put_text(&mut self, _adb: Adb<'_>, _word: Val, text: &[u8]) -> Result<(), AllocError> {
        write_text(self, text)
    }

    // Appends the hash as it is written in a line.
    fn put_hash(&mut self, hash: &[u8]) -> Result<(), AllocError> {
        write_hex(self, hash)
    }
}

/// The number of bytes that were written, without the bytes.
#[derive(Drop)]
pub(crate) struct Length {
    /// The number of bytes; a call that would make it overflow fails as out of memory.
    pub(crate) bytes: usize,
}

impl Length {
    /// Counts this many more bytes.
    fn add(&mut self, bytes: usize) -> Result<(), AllocError>
        ensures { OnOk result (self.new.bytes ≡ self.old.bytes + bytes) }
    {
        self.bytes = self.bytes.checked_add(bytes).ok_or(AllocError)?;
        Ok(())
    }
}

impl Out for Length {
    ghost use Rattle.std.specs.Prelude.{◌≡◌, length};

    // Only the number of bytes that were written is known.
    ghost holds = { λ _ out bytes. out.bytes ≡ length bytes };

    // Counts bytes.
    fn put(&mut self, bytes: &[u8]) -> Result<(), AllocError> {
        self.add(bytes.len())
    }

    // Counts one byte.
    fn put_byte(&mut self, _byte: u8) -> Result<(), AllocError> {
        self.add(1)
    }
}

/// How many bytes are counted before an allocation of that size is tried: 1 GiB. Any number is
/// correct. If the allocation fails, a text that no memory can hold is not counted further.
const MUCH: usize = 1 << 30;

/// The number of bytes that were written, and the lengths of long texts as they are written in
/// lines, by their words. Many fields may share a text, so the bytes of a long text are read once.
#[derive(Drop)]
pub(crate) struct Count {
    /// The number of bytes that were written.
    pub(crate) len: Length,
    /// The length of each long text as it is written in a line, by the word of the text.
    lens: BTreeMap<u32, usize>,
    /// The allocator.
    alloc: Global,
    /// The count in bytes up to which no allocation is tried.
    room: usize,
}

impl Count {
    ghost use Rattle.adb_dump.specs.Out.{AreLineLengths, KeepLineLengths};

    /// A count of no bytes.
    pub(crate) fn new(alloc: Global) -> Count
        // No byte is counted yet.
        ensures none { result.len.bytes ≡ 0 }
        // No length is remembered yet, so that each remembered one is right.
        ensures lens { (payload : List ℕ) → AreLineLengths payload result.lens }
    {
        Count {
            len: Length { bytes: 0 },
            lens: BTreeMap::new(alloc),
            alloc,
            room: MUCH,
        }
    }

    /// Counts this many more bytes. After a certain count an allocation of that size is tried and
    /// freed: if the allocation fails, the count need not continue. The next allocation is tried at
    /// twice the count.
    fn add(&mut self, bytes: usize) -> Result<(), AllocError>
        // On Ok, the count has risen by `bytes`.
        ensures len { OnOk result (self.new.len.bytes ≡ self.old.len.bytes + bytes) }
        // The remembered lengths of texts are unchanged.
        ensures lens { self.new.lens ≡ self.old.lens }
    {
        self.len.add(bytes)?;
        if self.len.bytes > self.room {
            let _tried: Vec<u8> = Vec::with_capacity(self.alloc, self.len.bytes)?;
            self.room = self.len.bytes.saturating_mul(2);
        }
        Ok(())
    }

    /// The length of a word's text as it is written in a line. The length is remembered for the
    /// word, which may occur again.
    fn line_len(&mut self, word: Val, text: &[u8]) -> Result<usize, AllocError>
        // On Ok, the result is the length of the text in a line, if the remembered lengths are
        // right for a payload that has this text for the word.
        ensures len { IfOk result (λ len. (payload : List ℕ)
            → text.now ≡ text_in (value_at payload Kinds.Text word)
            → AreLineLengths payload self.old.lens → len ≡ length (bare_or_quoted_text text.now)) }
        // If the remembered lengths were right for such a payload, they are right after the call.
        ensures kept { KeepLineLengths self.old.lens self.new.lens word text.now }
        // The text itself is not counted yet.
        ensures put { self.new.len ≡ self.old.len }
    {
        if let Some(len) = self.kept_len(word) {
            return Ok(len);
        }
        let len = line_len(text)?;
        self.lens.insert(word.word(), len)?;
        Ok(len)
    }

    /// The remembered length of a word's text, if there is one.
    fn kept_len(&self, word: Val) -> Option<usize>
        ensures { result ≡ get nat_cmp self.now.lens word }
    {
        self.lens.get(&word.word()).copied()
    }
}

/// How many bytes a text has as it is written in a line, counted byte by byte.
fn line_len(text: &[u8]) -> Result<usize, AllocError>
    ensures { IfOk result (λ len. len ≡ length (bare_or_quoted_text text.now)) }
{
    let mut len = Length { bytes: 0 };
    write_text(&mut len, text)?;
    Ok(len.bytes)
}

impl Out for Count {
    ghost use Rattle.std.specs.Prelude.{◌≡◌, length};
    ghost use Rattle.adb_dump.specs.Out.{AreLineLengths};

    // The number of bytes is right, and so is each remembered length of a text of the payload.
    ghost holds = { λ payload out bytes. (out.len.bytes ≡ length bytes)
        × AreLineLengths payload out.lens };

    // Counts bytes.
    fn put(&mut self, bytes: &[u8]) -> Result<(), AllocError> {
        self.add(bytes.len())?;
        Ok(())
    }

    // Counts one byte.
    fn put_byte(&mut self, _byte: u8) -> Result<(), AllocError> {
        self.add(1)?;
        Ok(())
    }
}

impl BlobOut for Count {
    /// Counts a text as it is written in a line. The bytes of a long text are read only once.
    fn put_text(&mut self, _adb: Adb<'_>, word: Val, text: &[u8]) -> Result<(), AllocError> {
        if text.len() <= SHORT {
            write_text(self, text)?;
            return Ok(());
        }
        let len = self.line_len(word, text)?;
        self.add(len)?;
        Ok(())
    }

    // Counts the digits of a hash.
    fn put_hash(&mut self, hash: &[u8]) -> Result<(), AllocError> {
        // There are two digits for each byte. They are counted in two steps, so that `2 * len`
        // cannot overflow.
        self.add(hash.len())?;
        self.add(hash.len())?;
        Ok(())
    }
}
