//! Items: the stored bytes of a value that does not fit into its word. This file has their bytes,
//! their fingerprints, and their order, by which the writer finds an equal item that is already
//! written. The layout of an item is in `docs/formats.md`, "Canonical layout" ("Values are written
//! depth first"); that equal values are stored once is stated below this paragraph.
ghost use Rattle.std.specs.Prelude.{◌≡◌, ◌≤◌, ◌<◌, ◌+◌, ◌-◌, ◌^◌, ◌++◌, get_or, length, replicate, reverse, take, OnOk, OnErr};
ghost use Rattle.std.specs.List.{flat_map};
ghost use Rattle.std.specs.Int.{w32, w64, to_le_bytes};
ghost use Rattle.std.specs.Ordering.{nat_cmp};
ghost use Rattle.std.specs.Cmp.Lexicographic.{slice_cmp};
ghost use Rattle.adb_view.specs.Adb.{payload_of};
ghost use Rattle.adb_view.specs.Entries.{array_entries};
ghost use Rattle.adb_view.specs.Gives.{Gives};
ghost use Rattle.adb_view.specs.Readers.{run_entries_of_kind_in_payload_at_word};
ghost use Rattle.adb_view.specs.Visits.{or_empty};
ghost use Rattle.adb_write.specs.Items.{width_len, list_kind, content_bytes, item_of};
ghost use Rattle.adb_write.specs.Keys.{low_words, kind_and_comparison_numbers, kind_and_comparison_numbers_at, blob_fingerprint, blob_hash, fingerprint_of, key_of_locator, key_with_fingerprint, list_fingerprint, low_nibbles};

use crate::locator::{fingerprint_of_locator, word_of_locator};
use adb_view::{Adb, Arr, Val};
use base_core::Cause;
use std::alloc::AllocError;
use std::cmp::Ordering;
use std::hash::{FoldHasher, Hasher};

/// How many bytes of each end of a long blob are hashed (`blob_hash`). Most texts of a package are
/// shorter. The number does not change which equal items are found.
const END: usize = 2048;

/// The kinds of words that point to an item: the numbers in their top 4 bits, as in the table of
/// `docs/formats.md`, "Values". The number in a name is how many bits the integer, or the length of
/// the blob, has.
mod kind {
    // An integer of 4 bytes.
    pub(super) const INT_32: u32 = 0x2;

    // An integer of 8 bytes.
    pub(super) const INT_64: u32 = 0x3;

    // A blob whose length has 1 byte.
    pub(super) const BLOB_8: u32 = 0x8;

    // A blob whose length has 2 bytes.
    pub(super) const BLOB_16: u32 = 0x9;

    // A blob whose length has 4 bytes.
    pub(super) const BLOB_32: u32 = 0xa;

    // An array: the number of its words, and the words.
    pub(super) const ARRAY: u32 = 0xd;

    // An object: the number of its words, and the words.
    pub(super) const OBJECT: u32 = 0xe;
}

/// The width of the number with which an item begins (`Parts::number`): how many bytes it has.
#[derive(Clone, Copy)]
pub(crate) enum Width {
    /// One byte.
    One,
    /// Two bytes.
    Two,
    /// Four bytes.
    Four,
    /// Eight bytes.
    Eight,
}

impl Width {
    /// How many bytes a number of this width has.
    pub(crate) fn len(self) -> usize
        // The number is that of the definition.
        ensures value { result ≡ width_len self }
        // The number is not 0.
        ensures some { 0 < result }
        // The number is at most 8.
        ensures few { result ≤ 8 }
    {
        match self {
            Width::One => 1,
            Width::Two => 2,
            Width::Four => 4,
            Width::Eight => 8,
        }
    }
}

/// The two kinds of lists. The words that point to an array and to an object have different kinds.
#[derive(Clone, Copy)]
pub(crate) enum ListKind {
    /// An array.
    Array,
    /// An object.
    Object,
}

impl ListKind {
    /// The kind of the words that point to a list of this kind.
    fn number(self) -> u32
        ensures { result ≡ list_kind self }
    {
        match self {
            ListKind::Array => kind::ARRAY,
            ListKind::Object => kind::OBJECT,
        }
    }
}

/// An item before it is written: the value from which its bytes are made.
#[derive(Clone, Copy)]
pub(crate) enum Parts<'a> {
    /// An integer that does not fit in a word.
    Int(u64),
    /// The bytes of a blob.
    Blob(&'a [u8]),
    /// A list: whether it is an array or an object, and the words of its entries.
    List(ListKind, &'a [Val]),
}

impl Parts<'_> {
    /// The kind of the words that point to the item.
    pub(crate) fn kind(&self) -> u32
        ensures value { result ≡ (item_of self.now).kind }
        // The number is not 0.
        ensures some { 0 < result }
        // The kind is less than 15.
        ensures few { result < 15 }
    {
        match self {
            Parts::Int(n) if *n < 1 << 32 => kind::INT_32,
            Parts::Int(_) => kind::INT_64,
            Parts::Blob(bytes) if bytes.len() < 1 << 8 => kind::BLOB_8,
            Parts::Blob(bytes) if bytes.len() < 1 << 16 => kind::BLOB_16,
            Parts::Blob(_) => kind::BLOB_32,
            Parts::List(list, _) => list.number(),
        }
    }

    /// The width of the number with which the item begins. The offset of the item in the payload is
    /// a multiple of this width.
    pub(crate) fn width(&self) -> Width
        // The width is the alignment of the item.
        ensures { width_len result ≡ (item_of self.now).align }
    {
        match self {
            Parts::Int(n) if *n < 1 << 32 => Width::Four,
            Parts::Int(_) => Width::Eight,
            Parts::Blob(bytes) if bytes.len() < 1 << 8 => Width::One,
            Parts::Blob(bytes) if bytes.len() < 1 << 16 => Width::Two,
            Parts::Blob(_) | Parts::List(_, _) => Width::Four,
        }
    }

    /// The number with which the item begins: the integer, the length of the blob, or the number of
    /// words of the list's run. This number counts as one of these words.
    #[tactic(auto, using(crate::proofs::Cells::int_bytes, crate::proofs::Cells::blob_bytes, crate::proofs::Cells::run_bytes_are))]
    fn number(&self) -> u64
        // The bytes of the item are those of this number, in its width, and then the content.
        ensures { (item_of self.now).bytes
            ≡ take ((item_of self.now).align) (to_le_bytes w64 result) ++ content_bytes self.now }
    {
        match self {
            Parts::Int(n) => *n,
            Parts::Blob(bytes) => bytes.len() as u64,
            Parts::List(_, words) => words.len() as u64 + 1,
        }
    }

    /// The length of the item in bytes.
    #[tactic(auto, using(crate::proofs::Placed::words_len))]
    pub(crate) fn len(&self) -> u64
        ensures value { result ≡ length (item_of self.now).bytes }
        // The number is not 0.
        ensures some { 0 < result }
        // The length is less than 2^63 + 8.
        ensures small { result < 2 ^ 63 + 8 }
    {
        // How many bytes follow the number with which the item begins.
        let content = match self {
            Parts::Int(_) => 0,
            Parts::Blob(bytes) => bytes.len() as u64,
            Parts::List(_, words) => 4 * words.len() as u64,
        };
        self.width().len() as u64 + content
    }

    /// How many entries the item has, which count as values; only a list has any.
    pub(crate) fn entries(&self) -> u64
        ensures value { result ≡ (item_of self.now).entries }
        // The number is less than 2^63.
        ensures small { result < 2 ^ 63 }
    {
        match self {
            Parts::List(_, words) => words.len() as u64,
            _ => 0,
        }
    }

    /// A number below 2^32 that depends on the item alone. Most items are distinguished by it, so
    /// that the payload need not be read.
    pub(crate) fn fingerprint(&self) -> u64
        ensures value { result ≡ fingerprint_of self.now }
        // The fingerprint has 32 bits.
        ensures small { result < 2 ^ 32 }
    {
        match self {
            Parts::Int(n) => *n % (1 << 32),
            Parts::Blob(bytes) => blob_fingerprint(bytes),
            Parts::List(_, words) => list_fingerprint(words),
        }
    }

    /// The order of this item and the written item of a locator: first by fingerprint, then by
    /// kind, then by content. `fingerprint` is that of this item.
    pub(crate) fn compare(&self, fingerprint: u64, adb: &Adb<'_>, locator: u64) -> Ordering
        // The order is that of the keys of the two items.
        ensures { result ≡ slice_cmp nat_cmp (key_with_fingerprint fingerprint self.now)
            (key_of_locator (payload_of adb.now) locator) }
    {
        match fingerprint.cmp(&fingerprint_of_locator(locator)) {
            Ordering::Equal => self.compare_content(adb, word_of_locator(locator)),
            by_fingerprint => by_fingerprint,
        }
    }

    /// The order of this item and the written item to which `word` points: first by kind, then by
    /// content. The order is `Equal` if and only if they have the same kind and the same value.
    pub(crate) fn compare_content(&self, adb: &Adb<'_>, word: Val) -> Ordering
        // The order is that of the keys of the two items, without their fingerprints.
        ensures { result ≡ slice_cmp nat_cmp (kind_and_comparison_numbers self.now)
            (kind_and_comparison_numbers_at (payload_of adb.now) word) }
    {
        // The top 4 bits of a word are its kind.
        let by_kind = self.kind().cmp(&(word.word() >> 28));
        if by_kind != Ordering::Equal {
            return by_kind;
        }
        match self {
            Parts::Int(n) => match adb.int(word) {
                Ok(found) => n.cmp(&found),
                // This does not occur for the words of a writer's locators, which can be read.
                Err(_) => Ordering::Greater,
            },
            Parts::Blob(bytes) => (*bytes).cmp(adb.blob(word).unwrap_or(&[])),
            Parts::List(list, words) => compare_list(adb, *list, words, word),
        }
    }

    /// Appends zeros to `out` up to the offset `at`, and then the bytes of the item. If memory runs
    /// out, `out` is unchanged.
    pub(crate) fn append(&self, out: &mut Vec<u8>, at: usize) -> Result<(), AllocError>
        // The offset is not before the end of the bytes.
        requires { length out.old.items ≤ at }
        // On Ok, zeros up to the offset, and then the bytes of the item, are appended.
        ensures ok { OnOk result (out.new.items
            ≡ out.old.items
            ++ (replicate (at - length out.old.items) 0 ++ (item_of self.now).bytes)) }
        // After an error, the bytes are unchanged.
        ensures err { OnErr result (out.new.items ≡ out.old.items) }
    {
        let len = out.len();
        let done = self.try_append(out, at);
        if done.is_err() {
            out.truncate(len);
        }
        done
    }

    /// Does what `append` does. But if memory runs out, the bytes that were already appended
    /// remain.
    fn try_append(&self, out: &mut Vec<u8>, at: usize) -> Result<(), AllocError>
        // The offset is not before the end of the bytes.
        requires { length out.old.items ≤ at }
        // On Ok, zeros up to the offset, and then the bytes of the item, are appended.
        ensures ok { OnOk result (out.new.items
            ≡ out.old.items
            ++ (replicate (at - length out.old.items) 0 ++ (item_of self.now).bytes)) }
        // The bytes before are unchanged, also after an error.
        ensures kept { take (length out.old.items) out.new.items ≡ out.old.items }
    {
        out.resize(at, 0)?;
        out.extend_from_slice(&self.number().to_le_bytes()[..self.width().len()])?;
        match self {
            Parts::Int(_) => Ok(()),
            Parts::Blob(bytes) => out.extend_from_slice(bytes),
            Parts::List(_, words) => add_words(out, words),
        }
    }
}

/// The byte at the index `i`, or 0 past the end.
fn byte_at(bytes: &[u8], i: usize) -> u64
    ensures value { result ≡ get_or bytes.now i 0 }
    // The byte has 8 bits.
    ensures small { result < 2 ^ 8 }
{
    match bytes.get(i) {
        Some(byte) => *byte as u64,
        None => 0,
    }
}

/// The low four bits of each of the four bytes from the index `i` on, as a number of base 16. The
/// low bits of digits are in the order of the digits, and those of letters mostly in that of the
/// letters.
fn low_nibbles(bytes: &[u8], i: usize) -> u64
    // The index is within the bytes, or at their end.
    requires { i ≤ length bytes.now }
    ensures value { result ≡ low_nibbles bytes.now i }
    // The number has 16 bits.
    ensures small { result < 2 ^ 16 }
{
    byte_at(bytes, i) % 16 * (1 << 12)
        + byte_at(bytes, i + 1) % 16 * (1 << 8)
        + byte_at(bytes, i + 2) % 16 * (1 << 4)
        + byte_at(bytes, i + 3) % 16
}

/// The fingerprint of a blob: its neighbourhood times 2^16, plus 22 bits of its hash and length,
/// modulo 2^32. Neighbours in a sorted list of texts have close neighbourhoods, so their locators
/// are inserted near each other, which is fast. Numbered texts that differ only in the last two
/// bytes have the same neighbourhood. The length distinguishes long blobs with equal ends. Equal
/// items are found whatever the fingerprint is.
#[tactic(auto, unfolding(crate::specs::Keys::blob_fingerprint))]
fn blob_fingerprint(bytes: &[u8]) -> u64
    ensures value { result ≡ blob_fingerprint bytes.now }
    // The fingerprint has 32 bits.
    ensures small { result < 2 ^ 32 }
{
    // A number from the first four bytes, and from the four before the last two.
    let neighbourhood = low_nibbles(bytes, 0) + low_nibbles(bytes, bytes.len().saturating_sub(6));
    // The neighbourhood is shifted by only 16 bits, so the top 6 of these 22 bits are added to its
    // low 6 bits. So blobs of one neighbourhood can have 2^22 fingerprints, not only 2^16.
    let hash = blob_hash(bytes).wrapping_add(bytes.len() as u64) % (1 << 22);
    (neighbourhood * (1 << 16) + hash) % (1 << 32)
}

/// The hash of a blob. All of its bytes are hashed, since names, versions and paths often differ
/// only in the middle. Of a blob of more than 4,096 bytes only the two ends are hashed, so that the
/// time is bounded.
#[tactic(auto, unfolding(crate::specs::Keys::blob_hash))]
fn blob_hash(bytes: &[u8]) -> u64
    ensures { result ≡ blob_hash bytes.now }
{
    let mut hasher = FoldHasher::default();
    if bytes.len() <= 2 * END {
        hasher.write(bytes);
        return hasher.finish();
    }
    hasher.write(&bytes[..END]);
    hasher.write(&bytes[bytes.len() - END..]);
    hasher.finish()
}

/// The fingerprint of a list: the last of its words, or 0 if it has none.
fn list_fingerprint(words: &[Val]) -> u64
    ensures value { result ≡ list_fingerprint (low_words words.now) }
    // The fingerprint has 32 bits.
    ensures small { result < 2 ^ 32 }
{
    if words.is_empty() {
        return 0;
    }
    let last = words.len() - 1;
    words[last].word() as u64
}

/// Compares the words of a list, which is not yet written, with the entries of the written list to
/// which `word` points, from the last entry on.
#[tactic(auto, using(crate::proofs::Compared::by_none))]
fn compare_list(adb: &Adb<'_>, list: ListKind, words: &[Val], word: Val) -> Ordering
    // The order is that of the two lists of words, both reversed.
    ensures { result ≡ slice_cmp nat_cmp (reverse (low_words words.now))
        (reverse (or_empty (run_entries_of_kind_in_payload_at_word (list_kind list)
        (payload_of adb.now) word))) }
{
    match entries(adb, list, word) {
        Ok(found) => compare_words(words, &found),
        // This does not occur for the words of a writer's locators, which can be read.
        Err(_) => words.len().cmp(&0),
    }
}

/// The entries of the written list to which `word` points; `list` says whether it is an array or an
/// object.
fn entries<'a>(adb: &Adb<'a>, list: ListKind, word: Val) -> Result<Arr<'a>, Cause>
    // The result has the words of the entries, or the cause, that the definition gives.
    ensures { Gives array_entries result (run_entries_of_kind_in_payload_at_word (list_kind list)
        (payload_of adb.now) word) }
{
    match list {
        ListKind::Array => adb.arr(word),
        // `0`: no field is read by its number, since all entries are returned.
        ListKind::Object => Ok(adb.obj::<0>(word)?.entries()),
    }
}

/// Compares words with the entries of a written list, from the last entry on. The last entries that
/// differ decide. If there are none, the numbers of entries decide.
fn compare_words(words: &[Val], entries: &Arr<'_>) -> Ordering
    // The order is that of the two lists of words, both reversed.
    ensures { result ≡ slice_cmp nat_cmp (reverse (low_words words.now))
        (reverse (array_entries entries.now)) }
{
    let mut i = 0;
    while i < words.len() && i < entries.len() {
        // The last `i` entries of both are equal. Compare the entries before these.
        let last = words.len() - 1 - i;
        match words[last]
            .word()
            .cmp(&entries.get(entries.len() - i).word())
        {
            Ordering::Equal => i += 1,
            by_word => return by_word,
        }
    }
    words.len().cmp(&entries.len())
}

/// Appends words to `out`, four bytes for each. If memory runs out, the words that were already
/// appended remain.
fn add_words(out: &mut Vec<u8>, words: &[Val]) -> Result<(), AllocError>
    // On Ok, the bytes of all words are appended.
    ensures ok { OnOk result
        (out.new.items ≡ out.old.items ++ flat_map (to_le_bytes w32) words.now) }
    // The bytes before are unchanged, also after an error.
    ensures kept { take (length out.old.items) out.new.items ≡ out.old.items }
{
    for word in words {
        out.extend_from_slice(&word.word().to_le_bytes())?;
    }
    Ok(())
}
