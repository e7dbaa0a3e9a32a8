//! The words (32-bit references) of values, and functions that read the numbers and ranges of bytes
//! to which words point. The readers in `adb` use them. The kinds of words are in the table of
//! `docs/formats.md`, "Values".

ghost use Rattle.std.specs.Prelude.{◌≡◌, ◌↔◌, IsTrue, ◌<◌, ◌≤◌, ◌-◌, ◌*◌, ◌/◌, ◌^◌, length, IfSome, slice_index, slice_range};
ghost use Rattle.adb_view.specs.Readers.{kind_number_of_word, low_28_bits, length_prefixed_bytes_at, run_entries_at};
ghost use Rattle.std.specs.Int.{byte_len};
ghost use Rattle.adb_view.specs.Bytes.{bytes_at_with_len, number_at, words};
ghost use Rattle.adb_view.specs.Gives.{Finds};
ghost use Rattle.adb_view.specs.Width.{width_of};

use std::marker::Model;

/// The kinds of words: the numbers in their top 4 bits, as in the table of `docs/formats.md`,
/// "Values". The number in a name is how many bits the integer, or the length of the blob, has at
/// the word's offset.
pub(crate) mod kind {
    // An integer in the word itself.
    pub(crate) const INT: u32 = 0x1;

    // An integer of 4 bytes at the word's offset.
    pub(crate) const INT_32: u32 = 0x2;

    // An integer of 8 bytes at the word's offset.
    pub(crate) const INT_64: u32 = 0x3;

    // A blob whose length has 1 byte, at the word's offset before the blob's bytes.
    pub(crate) const BLOB_8: u32 = 0x8;

    // A blob whose length has 2 bytes, at the word's offset before the blob's bytes.
    pub(crate) const BLOB_16: u32 = 0x9;

    // A blob whose length has 4 bytes, at the word's offset before the blob's bytes.
    pub(crate) const BLOB_32: u32 = 0xa;

    // An array, whose run is at the word's offset.
    pub(crate) const ARRAY: u32 = 0xd;

    // An object, whose run is at the word's offset.
    pub(crate) const OBJECT: u32 = 0xe;
}

/// A value's word: its kind in the top 4 bits, and below them a number, or an offset in bytes from
/// the start of the word's payload (apk-v3(5)).
#[derive(Clone, Copy, PartialEq, Eq)]
pub struct Val {
    /// The 32 bits: the kind in the top 4 bits, and below them a number or an offset in the
    /// payload.
    word: u32,
}

impl Model for Val {
    ghost use Rattle.std.specs.Prelude.{ℕ};

    ghost Value = { ℕ };

    ghost view = { λ v. v.word };

    ghost inverse = { λ word. record { word = word } };
}

impl Val {
    /// The word with these 32 bits.
    pub fn of(word: u32) -> Val
        ensures { result ≡ word }
    {
        Val { word }
    }

    /// The 32 bits of the word.
    pub fn word(self) -> u32
        ensures { result ≡ self }
    {
        self.word
    }

    /// Whether the word is NULL: all its bits are 0.
    pub fn is_null(self) -> bool
        ensures { IsTrue result ↔ (self ≡ 0) }
    {
        self.word == 0
    }

    /// The kind of the word: its top 4 bits.
    pub(crate) fn kind(self) -> u32
        ensures { result ≡ kind_number_of_word self }
    {
        self.word / 0x1000_0000
    }

    /// The low 28 bits of the word: a number, or an offset from the payload's start.
    pub(crate) fn low(self) -> u32
        ensures { result ≡ low_28_bits self }
    {
        self.word % 0x1000_0000
    }
}

/// The width of a number in a payload: how many bytes it has.
#[derive(Clone, Copy)]
pub(crate) enum Width {
    /// One byte.
    One,
    /// Two bytes.
    Two,
    /// Four bytes.
    Four,
    /// Eight bytes.
    Eight,
}

impl Width {
    /// How many bytes a number of this width has.
    pub(crate) fn bytes(self) -> usize
        ensures { result ≡ byte_len (width_of self) }
    {
        match self {
            Width::One => 1,
            Width::Two => 2,
            Width::Four => 4,
            Width::Eight => 8,
        }
    }
}

/// The `len` bytes from the offset `at` on, or None if fewer bytes are there.
pub(crate) fn range(bytes: &[u8], at: usize, len: usize) -> Option<&[u8]>
    ensures { Finds (λ found. found.now) result (bytes_at_with_len bytes.now at len) }
{
    bytes.get(at..at.checked_add(len)?)
}

/// The little-endian number of this width at the offset `at`, or None if it is not within the
/// bytes.
pub(crate) fn number(bytes: &[u8], at: usize, width: Width) -> Option<u64>
    // The result is the number at the offset, or None if it is not within the bytes.
    ensures value { result ≡ number_at (width_of width) bytes.now at }
    // The number fits into the bytes of this width.
    ensures fits { IfSome result (λ n. n < 2 ^ (8 * byte_len (width_of width))) }
{
    // The bytes of the number, the lowest first.
    let x = range(bytes, at, width.bytes())?;
    Some(match width {
        Width::One => u64::from(x[0]),
        Width::Two => u64::from(u16::from_le_bytes([x[0], x[1]])),
        Width::Four => u64::from(u32::from_le_bytes([x[0], x[1], x[2], x[3]])),
        Width::Eight => u64::from_le_bytes([x[0], x[1], x[2], x[3], x[4], x[5], x[6], x[7]]),
    })
}

/// The start and the end of a blob's bytes. The blob's length, a number of this width, is at the
/// offset `at`, and its bytes follow. None if they are not within `bytes`.
pub(crate) fn counted_range(bytes: &[u8], at: usize, width: Width) -> Option<(usize, usize)>
    // The offset fits into the 28 bits of a word.
    requires { at < 2 ^ 28 }
    // The result is the range of the blob's bytes, or None if they are not within `bytes`.
    ensures found { Finds (λ found. slice_range bytes.now found.0 found.1) result
        (length_prefixed_bytes_at (width_of width) bytes.now at) }
    // The start of the range is not after its end.
    ensures order { IfSome result (λ found. found.0 ≤ found.1) }
    // The end of the range is within the bytes.
    ensures within { IfSome result (λ found. found.1 ≤ length bytes.now) }
{
    let len = number(bytes, at, width)?;
    let from = at + width.bytes();
    let end = from.checked_add(len as usize)?;
    if end > bytes.len() {
        return None;
    }
    Some((from, end))
}

/// The bytes of the entries of the run at the offset `at`. The first word of a run is the number of
/// its words, including this first one, and the other words are its entries. None if this number is
/// 0, or the words are not within `bytes`.
pub(crate) fn run(bytes: &[u8], at: usize) -> Option<&[u8]>
    // The offset fits into the 28 bits of a word.
    requires { at < 2 ^ 28 }
    // The result has the words of the entries of the run at the offset, if there is a run.
    ensures found { Finds (λ found. words (length found.now / 4) found.now) result
        (run_entries_at bytes.now at) }
    // The number of the words, including the first one, fits into 32 bits.
    ensures counted { IfSome result (λ found. length found.now < 4 * (2 ^ 32 - 1)) }
{
    let count = number(bytes, at, Width::Four)?.checked_sub(1)?;
    range(bytes, at + 4, 4 * count as usize)
}

/// The word of `bytes` with the index `i`, which counts from 0. Each word has four bytes.
pub(crate) fn word_at(bytes: &[u8], i: usize) -> u32
    // The index is that of a word in the bytes.
    requires { i < length bytes.now / 4 }
    ensures { result ≡ slice_index (words (length bytes.now / 4) bytes.now) i }
{
    let x = &bytes[4 * i..];
    u32::from_le_bytes([x[0], x[1], x[2], x[3]])
}
