//! Arrays of a tested payload as lists of views, for example of packages or files. Reading an entry
//! cannot fail. `adb_schema` defines the views. The meaning of an entry is defined in
//! `docs/formats.md`, "Values".

ghost use Rattle.std.specs.Prelude.{◌≡◌, ◌<◌, ◌≤◌, ◌-◌, ◌^◌, ◌==◌, true};
ghost use Rattle.adb_view.specs.Adb.{payload_of};
ghost use Rattle.adb_view.specs.Entries.{array_entries};
ghost use Rattle.adb_view.specs.Plain.{Plain, blob_or_null};
ghost use Rattle.adb_view.specs.Values.{is_sound, value_at, entry_at_index, entries_in, count_of};
ghost use Rattle.adb_fields.specs.Fields.{are_all_sound, array_at};
ghost use Rattle.adb_view.specs.declared.tables.Kind.{Kind};
ghost use Rattle.adb_view.specs.declared.tables.Kind.TheVariants as Kinds;

use crate::reads::text_word;
use adb_view::{Adb, Arr, Val, entry_word};
use std::marker::PhantomData;

/// A type that shows words of one kind, as a view does.
pub trait Kinded {
    /// The kind of the words that the type shows.
    ghost kind: { Kind };
}

/// A view of a word that has a plain value of the view's kind. Reading parts of this value cannot
/// fail.
pub trait View<'a>: Kinded {
    /// The plain value that the view shows.
    ghost shows: { Self → Plain };

    /// The view of the word `word` of the payload `adb`.
    fn of(adb: Adb<'a>, word: Val) -> Self
        // The word has a plain value of the view's kind.
        requires { is_sound (payload_of adb) Self.kind word ≡ true }
        // The view shows the plain value of the word.
        ensures { shows result ≡ value_at (payload_of adb.entry) Self.kind word };
}

/// The entries of an array, shown as views.
pub struct List<'a, V: Kinded> {
    /// The payload that contains the list.
    adb: Adb<'a>,
    /// The words (32-bit references) of the entries.
    entries: Arr<'a>,
    /// The type of the views of entries. No value of this type is stored.
    of: PhantomData<V>,
    // Each word has a plain value of the entries' kind.
    ghost sound: { are_all_sound (payload_of adb) V.kind (array_entries entries) ≡ true },
}

impl<'a, V: View<'a>> List<'a, V> {
    ghost use Rattle.adb_fields.specs.ListValue.{list_value};

    /// The list of the entries that have these words in the payload `adb`.
    pub fn of(adb: Adb<'a>, entries: Arr<'a>) -> List<'a, V>
        // The words in `entries` have plain values: values of the kind of the entries.
        requires { are_all_sound (payload_of adb) V.kind (array_entries entries) ≡ true }
        // The entries of the list are the values of these words.
        ensures { list_value result
            ≡ array_at (payload_of adb.entry) V.kind (array_entries entries.entry) }
    {
        List {
            adb,
            entries,
            of: PhantomData,
        }
    }

    /// How many entries there are.
    #[tactic(auto, using(crate::proofs::FieldReads::entry_count))]
    pub fn len(&self) -> usize
        // The result is the number of entries.
        ensures value { result ≡ count_of (entries_in (list_value self.now)) }
        // There are fewer than 2^32 entries.
        ensures small { result < 2 ^ 32 }
    {
        self.entries.len()
    }

    /// The entry at this position, counted from 1.
    #[tactic(auto, using(crate::proofs::FieldReads::entry_count, crate::proofs::FieldReads::entry_sound, crate::proofs::FieldReads::entry_value))]
    pub fn get(&self, i: usize) -> V
        // Positions count from 1.
        requires from { 1 ≤ i }
        // The position is at most that of the last entry.
        requires to { i ≤ count_of (entries_in (list_value self.now)) }
        // The view shows the entry at this position.
        ensures { V.shows result ≡ entry_at_index (list_value self.now) (i - 1) }
    {
        let list = self;
        V::of(list.adb, entry_word(list.entries, i - 1))
    }
}

impl<'a, V: Kinded> Copy for List<'a, V> {}

impl<'a, V: Kinded> Clone for List<'a, V> {
    ghost use Rattle.std.specs.Prelude.{◌≡◌};

    // A clone is the same list.
    ghost is_clone = { λ list copy. copy ≡ list };

    // A clone never runs out of memory.
    ghost is_infallible = { λ _. Unit {0} };

    // The same list. No memory is allocated.
    fn clone(&self) -> Result<Self, std::alloc::AllocError> {
        Ok(*self)
    }
}

impl<'a> Kinded for &'a [u8] {
    // A byte slice shows words of texts.
    ghost kind = { Kinds.Text };
}

impl<'a> View<'a> for &'a [u8] {
    // A byte slice shows a blob with its bytes, or Null if it is empty.
    ghost shows = { λ text. blob_or_null text.now };

    // The text of the word.
    #[tactic(auto, using(crate::proofs::FieldReads::text_shown))]
    fn of(adb: Adb<'a>, word: Val) -> &'a [u8] {
        text_word(adb, word)
    }
}
