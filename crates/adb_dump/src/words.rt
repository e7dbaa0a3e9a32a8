//! Which words are Null, and the words of an object. The rules are in `docs/formats.md`, "Values":
//! NULL is Null for each shape, and so are an empty blob or array and an object without any value.
//! A stored 0 is not Null ("Dump text").

ghost use Rattle.std.specs.Prelude.{◌≡◌, ◌<◌, ◌^◌, true, length, slice_index, ◌==◌, if◌then◌else◌};
ghost use Rattle.adb_view.specs.Adb.{payload_of};
ghost use Rattle.adb_view.specs.Entries.{array_entries};
ghost use Rattle.adb_view.specs.Plain.{null, int, blob_or_null, array_or_null, trimmed_object_or_null};
ghost use Rattle.adb_schema.specs.adb_fields.Fields.{are_all_sound, values_at};
ghost use Rattle.adb_view.specs.Schema.{table};
ghost use Rattle.adb_view.specs.Values.{is_sound, value_at};
ghost use Rattle.adb_dump.specs.Words.{fields_sound, fields_at, is_null, are_null};
ghost use Rattle.adb_view.specs.declared.tables.Kind.TheVariants as Kinds;

use adb_schema::{Field, Kind, Which, fields_of, hash_word, objects_word, text_word, texts_word};
use adb_view::{Adb, Arr, Val, entry_word};

/// The words of an object of the table `which`, also those past the fields of the table. For NULL
/// there are none.
#[tactic(auto, using(crate::proofs::WordReads::object_value_is, crate::proofs::WordReads::object_sound, adb_fields::proofs::FieldReads::object_runs, adb_fields::proofs::FieldReads::read_ok))]
pub(crate) fn field_words<'a>(adb: Adb<'a>, which: Which, word: Val) -> Arr<'a>
    // The word refers to an object of this table, or is NULL.
    requires { is_sound (payload_of adb) (Kinds.Obj which) word ≡ true }
    // Each of these words that has a field refers to a value of the kind of this field, or is NULL.
    ensures sound { fields_sound (payload_of adb.entry) (table which) (array_entries result)
        ≡ true }
    // The object's value consists of the values of these words.
    ensures value { value_at (payload_of adb.entry) (Kinds.Obj which) word
        ≡ trimmed_object_or_null (fields_at (payload_of adb.entry) (table which)
        (array_entries result)) }
{
    match adb.find_entries(word) {
        Some(entries) => entries,
        // A sound word points to a run, or is NULL.
        None => unreachable!(),
    }
}

/// Whether a word is Null for its shape: NULL itself, or a blob, array or object without a byte, an
/// entry or a value.
#[cycle(null)]
#[tactic(auto, using(adb_view::proofs::WalkSteps::table_rank, crate::proofs::Nulls::text_null, crate::proofs::Nulls::hash_null, crate::proofs::Nulls::arr_null, crate::proofs::Nulls::obj_null))]
#[inline(always)]
pub(crate) fn is_null(adb: Adb<'_>, kind: Kind, word: Val) -> bool
    // The word refers to a value of this kind, or is NULL.
    requires { is_sound (payload_of adb) kind word ≡ true }
    ensures { result ≡ is_null (value_at (payload_of adb.entry) kind word) }
{
    match kind {
        Kind::Int => is_null_int(adb, word),
        Kind::Text => text_word(adb, word).is_empty(),
        Kind::Hash => hash_word(adb, word).is_empty(),
        Kind::TextArr => texts_word(adb, word).is_empty(),
        Kind::ObjArr(which) => objects_word(adb, which, word).is_empty(),
        Kind::Obj(which) => are_null(adb, fields_of(which), field_words(adb, which, word)),
    }
}

/// Whether the value of each field of an object is Null. `words` are the words of the object.
#[cycle(null)]
#[tactic(auto, using(adb_view::proofs::WalkSteps::field_rank, crate::proofs::Left::field_here, crate::proofs::Left::fields_later, crate::proofs::Left::null_next, crate::proofs::Left::null_stop, crate::proofs::Left::null_done, crate::proofs::Left::null_over))]
fn are_null(adb: Adb<'_>, fields: &[Field], words: Arr<'_>) -> bool
    // Each word refers to a value of the kind of its field, or is NULL.
    requires { fields_sound (payload_of adb) fields.now (array_entries words) ≡ true }
    // The result says whether the values of all fields are Null.
    ensures { result
        ≡ are_null (fields_at (payload_of adb.entry) fields.now (array_entries words.entry)) }
{
    for (i, field) in fields.iter().enumerate() {
        // Entries past the last are NULL.
        if i >= words.len() {
            break;
        }
        if !is_null(adb, field.kind, entry_word(words, i)) {
            return false;
        }
    }
    true
}

/// Whether the value of a word is Null as an integer: only that of NULL is, and a stored 0 is not.
#[tactic(auto, using(crate::proofs::Nulls::null_test, crate::proofs::Nulls::int_is_null))]
fn is_null_int(adb: Adb<'_>, word: Val) -> bool
    // The word refers to an integer, or is NULL.
    requires { is_sound (payload_of adb) Kinds.Int word ≡ true }
    ensures { result ≡ is_null (value_at (payload_of adb.entry) Kinds.Int word) }
{
    word.is_null()
}
