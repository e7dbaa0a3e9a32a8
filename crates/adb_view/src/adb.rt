//! An opened payload, its four readers (`int`, `blob`, `arr`, `obj`), and the laws about plain
//! values. All crates that read containers use them. The rules are in `docs/formats.md`, "Values":
//! the head below "An ADB payload begins with eight bytes", the kinds of words in its table, the
//! result of each reader below this table.

ghost use Rattle.std.specs.Prelude.{◌≡◌, ◌≤◌, length, slice_range, IfOk, ◌<◌, ℕ, List, All, IfSome, is_some};
ghost use Rattle.std.specs.Result.{result_err, result_ok};
ghost use Rattle.adb_view.specs.Head.{payload_head_fault, root_word_of_payload};
ghost use Rattle.adb_view.specs.Readers.{int_of, blob_of, run_entries_of_kind_in_payload_at_word, ARRAY, OBJECT};
ghost use Rattle.adb_view.specs.Gives.{Finds, Gives};
ghost use Rattle.std.specs.List.{list_all};
ghost use Rattle.adb_view.specs.Plain.{Shape, Fields, plain_of, plains_of, IsNormal};
ghost use Rattle.adb_view.specs.Shaped.{HasShape, HaveShapes};
ghost use Rattle.adb_view.specs.Visits.{visits, field_visits, is_sound_visit};

use crate::run::{Arr, Obj};
use crate::words::{Val, Width, counted_range, kind, number};
use base_core::Cause;

/// How many bytes a payload has before its values: the compatibility version, three ignored bytes,
/// and the root's word.
const HEAD: usize = 8;

/// An ADB payload (apk-v3(5)) whose head has been tested.
#[derive(Clone, Copy)]
pub struct Adb<'a> {
    /// The whole payload, including its head.
    payload: &'a [u8],
    // A payload has at least the 8 bytes of its head.
    ghost whole: { 8 ≤ length payload.now },
}

impl<'a> Adb<'a> {
    ghost use Rattle.adb_view.specs.Adb.{payload_of};
    ghost use Rattle.adb_view.specs.Entries.{array_entries, object_entries};

    /// Tests the payload's head: it has at least 8 bytes, and the compatibility version 0.
    ///
    /// # Errors
    ///
    /// `Truncated` at 0 if there are fewer than 8 bytes, else `CompatVersion` if the first byte is
    /// not 0.
    pub fn new(payload: &'a [u8]) -> Result<Adb<'a>, Cause>
        // An error is the fault of the payload's head.
        ensures exact { result_err result ≡ payload_head_fault payload.now }
        // The opened payload has the given bytes.
        ensures lent { IfOk result (λ adb. payload_of adb ≡ payload.now) }
    {
        if payload.len() < HEAD {
            return Err(Cause::Truncated { at: 0 });
        }
        if payload[0] != 0 {
            return Err(Cause::CompatVersion);
        }
        Ok(Adb { payload })
    }

    /// All bytes of the payload, including its head.
    pub fn payload(&self) -> &'a [u8]
        ensures { result.now ≡ payload_of self.now }
    {
        self.payload
    }

    /// The word of the payload's root value.
    pub fn root(&self) -> Val
        ensures { result ≡ root_word_of_payload (payload_of self.now) }
    {
        let payload = self.payload;
        Val::of(u32::from_le_bytes([payload[4], payload[5], payload[6], payload[7]]))
    }

    /// The integer to which the word `v` refers; NULL is 0.
    ///
    /// # Errors
    ///
    /// `WrongKind` if `v` is no word of an integer, else `Outside` if the integer's bytes are not
    /// within the payload.
    #[tactic(auto, unfolding(crate::specs::Readers::int_of))]
    pub fn int(&self, v: Val) -> Result<u64, Cause>
        ensures { result ≡ int_of (payload_of self.now) v }
    {
        if v.is_null() {
            return Ok(0);
        }
        let word = v.word();
        let found = match v.kind() {
            kind::INT => Some(u64::from(v.low())),
            kind::INT_32 => number(self.payload, v.low() as usize, Width::Four),
            kind::INT_64 => number(self.payload, v.low() as usize, Width::Eight),
            _ => return Err(Cause::WrongKind { word }),
        };
        found.ok_or(Cause::Outside { word })
    }

    /// The bytes of the blob to which the word `v` refers, borrowed from the payload; NULL is
    /// empty.
    ///
    /// # Errors
    ///
    /// `WrongKind` if `v` is no word of a blob, else `Outside` if the blob's bytes are not within
    /// the payload.
    pub fn blob(&self, v: Val) -> Result<&'a [u8], Cause>
        ensures { Gives (λ bytes. bytes.now) result (blob_of (payload_of self.now) v) }
    {
        let (from, end) = self.blob_range(v)?;
        Ok(&self.payload[from..end])
    }

    /// The start and the end, in the payload, of the bytes of the blob to which the word `v`
    /// refers. For NULL both are 0.
    ///
    /// # Errors
    ///
    /// `WrongKind` if `v` is no word of a blob, else `Outside` if the blob's bytes are not within
    /// the payload.
    #[tactic(auto, unfolding(crate::specs::Readers::blob_of))]
    pub fn blob_range(&self, v: Val) -> Result<(usize, usize), Cause>
        // On Ok, the bytes between the start and the end are those of the blob. An error is that of
        // the definition.
        ensures found { Gives (λ found. slice_range (payload_of self.now) found.0 found.1) result
            (blob_of (payload_of self.now) v) }
        // The start is not after the end.
        ensures order { IfOk result (λ found. found.0 ≤ found.1) }
        // The end of the blob is within the payload.
        ensures within { IfOk result (λ found. found.1 ≤ length (payload_of self.now)) }
    {
        if v.is_null() {
            return Ok((0, 0));
        }
        let word = v.word();
        let width = match v.kind() {
            kind::BLOB_8 => Width::One,
            kind::BLOB_16 => Width::Two,
            kind::BLOB_32 => Width::Four,
            _ => return Err(Cause::WrongKind { word }),
        };
        counted_range(self.payload, v.low() as usize, width).ok_or(Cause::Outside { word })
    }

    /// The entries of the array to which the word `v` refers; NULL has no entries.
    ///
    /// # Errors
    ///
    /// `WrongKind` if `v` is no word of an array, else `Outside` if the array's run is not within
    /// the payload or has the count 0.
    pub fn arr(&self, v: Val) -> Result<Arr<'a>, Cause>
        ensures { Gives array_entries result (run_entries_of_kind_in_payload_at_word ARRAY
            (payload_of self.now) v) }
    {
        Arr::read(self.payload, kind::ARRAY, v)
    }

    /// The object to which the word `v` refers, to be read by N fields; NULL has no entries.
    ///
    /// # Errors
    ///
    /// `WrongKind` if `v` is no word of an object, else `Outside` if the object's run is not within
    /// the payload or has the count 0.
    pub fn obj<const N: usize>(&self, v: Val) -> Result<Obj<'a, N>, Cause>
        ensures { Gives object_entries result (run_entries_of_kind_in_payload_at_word OBJECT
            (payload_of self.now) v) }
    {
        let entries = Arr::read(self.payload, kind::OBJECT, v)?;
        Ok(Obj::of(entries))
    }

    /// The integer that `int` returns; None if `int` fails. This is faster than `int`, whose cause
    /// has 150 bytes, which are moved at each call.
    #[tactic(auto, unfolding(crate::specs::Readers::int_of))]
    pub fn int_if_read(&self, v: Val) -> Option<u64>
        ensures { result ≡ result_ok (int_of (payload_of self.now) v) }
    {
        if v.is_null() {
            return Some(0);
        }
        match v.kind() {
            kind::INT => Some(u64::from(v.low())),
            kind::INT_32 => number(self.payload, v.low() as usize, Width::Four),
            kind::INT_64 => number(self.payload, v.low() as usize, Width::Eight),
            _ => None,
        }
    }

    /// The bytes that `blob` returns; None if `blob` fails.
    #[tactic(auto, unfolding(crate::specs::Readers::blob_of))]
    pub fn blob_if_read(&self, v: Val) -> Option<&'a [u8]>
        ensures { Finds (λ bytes. bytes.now) result (result_ok (blob_of (payload_of self.now) v)) }
    {
        if v.is_null() {
            return Some(&[]);
        }
        let at = v.low() as usize;
        let (from, end) = match v.kind() {
            kind::BLOB_8 => counted_range(self.payload, at, Width::One),
            kind::BLOB_16 => counted_range(self.payload, at, Width::Two),
            kind::BLOB_32 => counted_range(self.payload, at, Width::Four),
            _ => None,
        }?;
        Some(&self.payload[from..end])
    }

    /// The entries that `arr` returns; None if `arr` fails.
    pub fn arr_if_read(&self, v: Val) -> Option<Arr<'a>>
        // The result has the words of the entries that the definition gives, or is None for an
        // error.
        ensures { Finds array_entries result (result_ok
            (run_entries_of_kind_in_payload_at_word ARRAY
            (payload_of self.now) v)) }
    {
        Arr::find(self.payload, kind::ARRAY, v)
    }

    /// All entries of the object that `obj` returns; None if `obj` fails.
    pub fn find_entries(&self, v: Val) -> Option<Arr<'a>>
        // The result has the words of the entries that the definition gives, or is None for an
        // error.
        ensures { Finds array_entries result (result_ok
            (run_entries_of_kind_in_payload_at_word OBJECT
            (payload_of self.now) v)) }
    {
        Arr::find(self.payload, kind::OBJECT, v)
    }
}

/// A law: a word has a plain value if and only if each word that the walk visits can be read by the
/// reader of its shape. The same holds for the entries of an object.
pub fn value_is_found_where_visits_are_sound()
    // A word has a plain value exactly if each word that the walk visits is sound.
    ensures word { (payload : List ℕ) (shape : Shape) (word : ℕ)
        → is_some (plain_of payload shape word)
        ≡ list_all (is_sound_visit payload) (visits payload shape word) }
    // The entries of an object have plain values exactly if each word that the walk visits is
    // sound.
    ensures fields { (payload : List ℕ) (fields : Fields) (words : List ℕ)
        → is_some (plains_of payload fields words)
        ≡ list_all (is_sound_visit payload) (field_visits payload fields words) }
{}

/// A law: each plain value that is read from bytes (numbers below 256) is normal. Its integers are
/// below 2^64, no blob or list in it is empty, and no object in it ends in Null.
pub fn values_are_normal()
    ensures { (payload : List ℕ) → All (λ b. b < 256) payload
        → (shape : Shape) (word : ℕ) → IfSome (plain_of payload shape word) IsNormal }
{}

/// A law: each plain value that is read has the shape by which it was read. The same holds for the
/// values of an object's entries.
pub fn values_have_their_shape()
    // The value of a word has the shape by which it was read.
    ensures word { (payload : List ℕ) (shape : Shape) (word : ℕ)
        → IfSome (plain_of payload shape word) (HasShape shape) }
    // The values of an object's entries have the shapes of the fields by which they were read.
    ensures fields { (payload : List ℕ) (fields : Fields) (words : List ℕ)
        → IfSome (plains_of payload fields words) (HaveShapes fields) }
{}
