//! Views of the entries of an array (`Arr`) and of an object (`Obj`). The words of the entries are
//! next to each other in the payload, and are called a run. The rule is in `docs/formats.md`,
//! "Values" ("The first word of a run").

ghost use Rattle.std.specs.Prelude.{◌≡◌, ◌≤◌, ◌<◌, ◌-◌, ◌*◌, ◌^◌, ◌==◌, length};
ghost use Rattle.std.specs.Result.{result_ok};
ghost use Rattle.adb_view.specs.Readers.{run_entries_of_kind_in_payload_at_word};
ghost use Rattle.adb_view.specs.Gives.{Finds, Gives};

use crate::words::{Val, run, word_at};
use base_core::Cause;

/// The entries of an array, as their words are in the payload.
#[derive(Clone, Copy)]
pub struct Arr<'a> {
    /// The words of the entries, four bytes each.
    bytes: &'a [u8],
    // The number of the entries, plus one, fits into 32 bits.
    ghost counted: { length bytes.now < 4 * (2 ^ 32 - 1) },
}

#[tactic(auto, using(crate::proofs::RunWords::word_count))]
impl<'a> Arr<'a> {
    ghost use Rattle.adb_view.specs.Entries.{array_entries, entry_word_at_position};

    /// The entries of the run to which the word `v` points. `v` must have the kind `kind`, that of
    /// an array or of an object. NULL has no entries.
    #[tactic(auto, unfolding(crate::specs::Readers::run_entries_of_kind_in_payload_at_word, crate::specs::Bytes::words))]
    pub(crate) fn read(payload: &'a [u8], kind: u32, v: Val) -> Result<Arr<'a>, Cause>
        ensures { Gives array_entries result
            (run_entries_of_kind_in_payload_at_word kind payload.now v) }
    {
        if v.is_null() {
            return Ok(Arr { bytes: &[] });
        }
        let word = v.word();
        if v.kind() != kind {
            return Err(Cause::WrongKind { word });
        }
        match run(payload, v.low() as usize) {
            Some(bytes) => Ok(Arr { bytes }),
            None => Err(Cause::Outside { word }),
        }
    }

    /// The entries that `read` returns, or None if `read` fails.
    #[tactic(auto, unfolding(crate::specs::Readers::run_entries_of_kind_in_payload_at_word, crate::specs::Bytes::words))]
    pub(crate) fn find(payload: &'a [u8], kind: u32, v: Val) -> Option<Arr<'a>>
        ensures { Finds array_entries result (result_ok
            (run_entries_of_kind_in_payload_at_word kind payload.now v)) }
    {
        if v.is_null() {
            return Some(Arr { bytes: &[] });
        }
        if v.kind() != kind {
            return None;
        }
        match run(payload, v.low() as usize) {
            Some(bytes) => Some(Arr { bytes }),
            None => None,
        }
    }

    /// How many entries there are. There are fewer than 2^32 - 1, since the first word of a run,
    /// which has 32 bits, counts them and itself.
    pub fn len(&self) -> usize
        // The result is the number of entries.
        ensures value { result ≡ length (array_entries self.now) }
        // There are fewer than 2^32 - 1 entries.
        ensures small { result < 2 ^ 32 - 1 }
    {
        self.bytes.len() / 4
    }

    /// Whether there is no entry.
    pub fn is_empty(&self) -> bool
        ensures { result ≡ (length (array_entries self.now) == 0) }
    {
        self.len() == 0
    }

    /// The entry at this position, which counts from 1.
    pub fn get(&self, i: usize) -> Val
        // Positions count from 1.
        requires from { 1 ≤ i }
        // The position is at most that of the last entry.
        requires to { i ≤ length (array_entries self.now) }
        ensures { result ≡ entry_word_at_position (array_entries self.now) i }
    {
        Val::of(word_at(self.bytes, i - 1))
    }
}

/// The entries of an object, to be read by the N fields of its table.
#[derive(Clone, Copy)]
pub struct Obj<'a, const N: usize> {
    /// All entries, also those past the N fields.
    entries: Arr<'a>,
}

impl<'a, const N: usize> Obj<'a, N> {
    ghost use Rattle.adb_view.specs.Entries.{array_entries, entry_word_at_position, object_entries};

    /// The object with these entries as its fields; entries past the table's last field are
    /// ignored.
    pub(crate) fn of(entries: Arr<'a>) -> Obj<'a, N>
        ensures { object_entries result ≡ array_entries entries.entry }
    {
        Obj { entries }
    }

    /// The entry of the field with this number, which counts from 1; NULL past the last entry.
    pub fn field(&self, i: usize) -> Val
        // Positions count from 1.
        requires from { 1 ≤ i }
        // The number of the field is at most `N`.
        requires to { i ≤ N }
        ensures { result ≡ entry_word_at_position (object_entries self.now) i }
    {
        if i <= self.entries.len() {
            self.entries.get(i)
        } else {
            Val::of(0)
        }
    }

    /// All entries of the object, also those past its N fields.
    pub fn entries(&self) -> Arr<'a>
        ensures { array_entries result ≡ object_entries self.now }
    {
        self.entries
    }
}
