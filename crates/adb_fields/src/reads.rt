//! The functions of this module read words, and fields of objects. No read can fail, since the
//! words are *sound*: each has a plain value of the kind that is read. After the shape of a payload
//! was tested, all its words are sound. Where a reader would refuse a word, the code is
//! `unreachable!`, since no sound word is refused.
//!
//! Indexes of fields count from 0, and a missing field is Null. `field_indexes` of `adb_view` names
//! the indexes. The meaning of a word, a field and an entry is defined in `docs/formats.md`,
//! "Values". The fields of each table are in "Schemas", where they count from 1.

ghost use Rattle.std.specs.Prelude.{◌≡◌, ◌<◌, true, Some, length, slice_index, slice_index_or};
ghost use Rattle.adb_view.specs.Adb.{payload_of};
ghost use Rattle.adb_view.specs.Entries.{array_entries};
ghost use Rattle.adb_view.specs.Readers.{run_entries_of_kind_in_payload_at_word, OBJECT};
ghost use Rattle.adb_view.specs.Values.{is_sound, value_at, int_in, text_in, kind_at, entry_at_index};
ghost use Rattle.adb_fields.specs.Fields.{AreFieldsOf, IsFieldOf, are_all_sound, array_at};
ghost use Rattle.adb_view.specs.declared.tables.Kind.TheVariants as Kinds;

use adb_view::{Adb, Arr, Val, Which, entry_word};

/// The words of all fields of the object, also of those past the fields of its table.
#[tactic(auto, using(crate::proofs::FieldReads::object_runs))]
pub fn object_words<'a>(adb: Adb<'a>, which: Which, object: Val) -> Arr<'a>
    // The word `object` has a plain value: an object of the table `which`.
    requires { is_sound (payload_of adb) (Kinds.Obj which) object ≡ true }
    // Each word is that of the field with its index.
    ensures { AreFieldsOf (payload_of adb.entry) which object (array_entries result) }
{
    match adb.find_entries(object) {
        Some(entries) => entries,
        None => unreachable!(),
    }
}

/// The word with the index `i`, which counts from 0; NULL past the last word.
pub fn word_or_null(words: Arr<'_>, i: usize) -> Val
    ensures { result ≡ slice_index_or (array_entries words.entry) i 0 }
{
    if i < words.len() {
        entry_word(words, i)
    } else {
        Val::of(0)
    }
}

/// The word of the field with the index `i` in the object; NULL if the object ends before this
/// field. If the table has no field with this index, nothing is promised.
pub fn field_word(adb: Adb<'_>, which: Which, object: Val, i: usize) -> Val
    // The word `object` has a plain value: an object of the table `which`.
    requires { is_sound (payload_of adb) (Kinds.Obj which) object ≡ true }
    // The word is that of the field, if the table has this field.
    ensures { IsFieldOf (payload_of adb.entry) which object i result }
{
    word_or_null(object_words(adb, which, object), i)
}

/// The integer to which the word refers; 0 for NULL.
#[tactic(auto, using(crate::proofs::FieldReads::int_read_of, crate::proofs::FieldReads::int_reads, crate::proofs::FieldReads::read_ok))]
pub fn int_word(adb: Adb<'_>, word: Val) -> u64
    // The word `word` has a plain value: an integer.
    requires { is_sound (payload_of adb) Kinds.Int word ≡ true }
    ensures { result ≡ int_in (value_at (payload_of adb.entry) Kinds.Int word) }
{
    match adb.int_if_read(word) {
        Some(n) => n,
        None => unreachable!(),
    }
}

/// The bytes of the text to which the word refers; none for NULL.
#[tactic(auto, using(crate::proofs::FieldReads::text_read_of, crate::proofs::FieldReads::text_reads, crate::proofs::FieldReads::read_ok))]
pub fn text_word<'a>(adb: Adb<'a>, word: Val) -> &'a [u8]
    // The word `word` has a plain value: a text.
    requires { is_sound (payload_of adb) Kinds.Text word ≡ true }
    ensures { result.now ≡ text_in (value_at (payload_of adb.entry) Kinds.Text word) }
{
    match adb.blob_if_read(word) {
        Some(bytes) => bytes,
        None => unreachable!(),
    }
}

/// The bytes of the hash to which the word refers; none for NULL.
#[tactic(auto, using(crate::proofs::FieldReads::hash_read_of, crate::proofs::FieldReads::hash_reads, crate::proofs::FieldReads::read_ok))]
pub fn hash_word<'a>(adb: Adb<'a>, word: Val) -> &'a [u8]
    // The word `word` has a plain value: a hash.
    requires { is_sound (payload_of adb) Kinds.Hash word ≡ true }
    ensures { result.now ≡ text_in (value_at (payload_of adb.entry) Kinds.Hash word) }
{
    match adb.blob_if_read(word) {
        Some(bytes) => bytes,
        None => unreachable!(),
    }
}

/// The words of the entries of the array of texts to which the word refers; none for NULL.
#[tactic(auto, using(crate::proofs::FieldReads::texts_sound, crate::proofs::FieldReads::texts_value, crate::proofs::FieldReads::texts_run, crate::proofs::FieldReads::read_ok))]
pub fn texts_word<'a>(adb: Adb<'a>, word: Val) -> Arr<'a>
    // The word `word` has a plain value: an array of texts.
    requires { is_sound (payload_of adb) Kinds.TextArr word ≡ true }
    // Each word in the result has a plain value of the kind of the entries.
    ensures sound { are_all_sound (payload_of adb.entry) Kinds.Text (array_entries result) ≡ true }
    // The values of these words are the entries of the array.
    ensures value { array_at (payload_of adb.entry) Kinds.Text (array_entries result)
        ≡ value_at (payload_of adb.entry) Kinds.TextArr word }
{
    match adb.arr_if_read(word) {
        Some(entries) => entries,
        None => unreachable!(),
    }
}

/// The words of the entries of the array to which the word refers, which are objects of the table
/// `which`; none for NULL.
#[tactic(auto, using(crate::proofs::FieldReads::objects_sound, crate::proofs::FieldReads::objects_value, crate::proofs::FieldReads::objects_run, crate::proofs::FieldReads::read_ok))]
pub fn objects_word<'a>(adb: Adb<'a>, which: Which, word: Val) -> Arr<'a>
    // The word `word` has a plain value: an array of objects of the table.
    requires { is_sound (payload_of adb) (Kinds.ObjArr which) word ≡ true }
    // Each word in the result has a plain value of the kind of the entries.
    ensures sound { are_all_sound (payload_of adb.entry) (Kinds.Obj which) (array_entries result)
        ≡ true }
    // The values of these words are the entries of the array.
    ensures value { array_at (payload_of adb.entry) (Kinds.Obj which) (array_entries result)
        ≡ value_at (payload_of adb.entry) (Kinds.ObjArr which) word }
{
    match adb.arr_if_read(word) {
        Some(entries) => entries,
        None => unreachable!(),
    }
}

/// The integer in the field with the index `i` of an object; 0 if the field is Null.
pub fn int_field(adb: Adb<'_>, which: Which, object: Val, i: usize) -> u64
    // The word `object` has a plain value: an object of the table `which`.
    requires sound { is_sound (payload_of adb) (Kinds.Obj which) object ≡ true }
    // Field `i` of the table is an integer.
    requires kind { kind_at which i ≡ Some Kinds.Int }
    // The result is the value of this field of the object.
    ensures { result
        ≡ int_in (entry_at_index (value_at (payload_of adb.entry) (Kinds.Obj which) object) i) }
{
    int_word(adb, field_word(adb, which, object, i))
}

/// The bytes of the text in the field with the index `i` of an object; none if the field is Null.
pub fn text_field<'a>(adb: Adb<'a>, which: Which, object: Val, i: usize) -> &'a [u8]
    // The word `object` has a plain value: an object of the table `which`.
    requires sound { is_sound (payload_of adb) (Kinds.Obj which) object ≡ true }
    // Field `i` of the table is a text.
    requires kind { kind_at which i ≡ Some Kinds.Text }
    // The result is the value of this field of the object.
    ensures { result.now
        ≡ text_in (entry_at_index (value_at (payload_of adb.entry) (Kinds.Obj which) object) i) }
{
    text_word(adb, field_word(adb, which, object, i))
}

/// The bytes of the hash in the field with the index `i` of an object; none if the field is Null.
pub fn hash_field<'a>(adb: Adb<'a>, which: Which, object: Val, i: usize) -> &'a [u8]
    // The word `object` has a plain value: an object of the table `which`.
    requires sound { is_sound (payload_of adb) (Kinds.Obj which) object ≡ true }
    // Field `i` of the table is a hash.
    requires kind { kind_at which i ≡ Some Kinds.Hash }
    // The result is the value of this field of the object.
    ensures { result.now
        ≡ text_in (entry_at_index (value_at (payload_of adb.entry) (Kinds.Obj which) object) i) }
{
    hash_word(adb, field_word(adb, which, object, i))
}

/// The words of the entries of the field with the index `i`, which is an array of texts.
pub fn texts_field<'a>(adb: Adb<'a>, which: Which, object: Val, i: usize) -> Arr<'a>
    // The word `object` has a plain value: an object of the table `which`.
    requires sound { is_sound (payload_of adb) (Kinds.Obj which) object ≡ true }
    // Field `i` of the table is an array of texts.
    requires kind { kind_at which i ≡ Some Kinds.TextArr }
    // Each word in the result has a plain value of the kind of the entries.
    ensures sound { are_all_sound (payload_of adb.entry) Kinds.Text (array_entries result) ≡ true }
    // The values of these words are the entries of the array.
    ensures value { array_at (payload_of adb.entry) Kinds.Text (array_entries result)
        ≡ entry_at_index (value_at (payload_of adb.entry) (Kinds.Obj which) object) i }
{
    texts_word(adb, field_word(adb, which, object, i))
}

/// The words of the entries of the field with the index `i`, which is an array of objects of the
/// table `inner`.
pub fn objects_field<'a>(adb: Adb<'a>, which: Which, object: Val, i: usize, inner: Which) -> Arr<'a>
    // The word `object` has a plain value: an object of the table `which`.
    requires sound { is_sound (payload_of adb) (Kinds.Obj which) object ≡ true }
    // Field `i` of the table is an array of objects of the table `inner`.
    requires kind { kind_at which i ≡ Some (Kinds.ObjArr inner) }
    // Each word in the result has a plain value of the kind of the entries.
    ensures sound { are_all_sound (payload_of adb.entry) (Kinds.Obj inner) (array_entries result)
        ≡ true }
    // The values of these words are the entries of the array.
    ensures value { array_at (payload_of adb.entry) (Kinds.Obj inner) (array_entries result)
        ≡ entry_at_index (value_at (payload_of adb.entry) (Kinds.Obj which) object) i }
{
    objects_word(adb, inner, field_word(adb, which, object, i))
}
