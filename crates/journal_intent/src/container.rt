//! Writes an intent as a container, for `PreparedIntent`; a law says that it is read back. The
//! rules are in `docs/formats.md`, "Schemas", table 10, and "Canonical layout".
ghost use Rattle.std.specs.Prelude.{◌≡◌, ◌++◌, ◌<◌, ◌+◌, ◌^◌, ℕ, List, Some, None, length, IfOk, OnOk, IsErrOf};
ghost use Rattle.adb_sound.specs.adb_schema.declared.read.TheConstants.{INTENT_WORD};
ghost use Rattle.adb_values.specs.Drafts.{draft_with};
ghost use Rattle.adb_view.specs.Plain.{array_or_null, plains_of_texts};
ghost use Rattle.adb_sound.specs.adb_write.Canonical.{canonical, counts_at_first_overflow};
ghost use Rattle.adb_sound.specs.adb_write.File.{file_of};
ghost use Rattle.journal_intent.specs.Intent.{AreDistinctNamesAllowedInIntent, read_intent};
ghost use Rattle.journal_intent.specs.IntentValue.{intent_of_lists, value_of_intent};

use adb_block::what_is_spelled_is_read;
use adb_schema::{
    INTENT_WORD, no_repeated_name_is_reported_if_there_is_none,
    no_text_is_bad_where_each_keeps_its_rule,
};
use adb_sound::{a_container_of_a_good_value_is_sound, what_a_container_is_made_of_is_read_back};
use adb_values::Draft;
use adb_write::{WriteFault, a_file_is_spelled, a_value_overflows_exactly_past_a_limit, file_of};
use base_core::Names;
use std::alloc::{AllocError, Global};

/// The file of an intent with these removals and writes: a container that encodes it.
///
/// # Errors
///
/// `TooLarge` exactly if the payload exceeds a limit of the writer, or `Memory`.
pub(crate) fn intent_file(
    alloc: Global,
    removals: &Names,
    writes: &Names,
) -> Result<Vec<u8>, WriteFault>
    // The names are allowed in an intent, and none is repeated.
    requires { AreDistinctNamesAllowedInIntent (removals.now ++ writes.now) }
    // On Ok, the file is read as the intent of these lists.
    ensures spelled { IfOk result
        (λ file. read_intent file.items ≡ Some (intent_of_lists removals.now writes.now)) }
    // The error for a payload that is too large has the counts at which a limit is exceeded.
    ensures large { (bytes values : ℕ) → IsErrOf result (WriteFault.TooLarge bytes values)
        → counts_at_first_overflow (value_of_intent (intent_of_lists removals.now writes.now))
        ≡ Some (bytes, values) }
    // Ok is returned only if the payload exceeds no limit.
    ensures fits { OnOk result
        (counts_at_first_overflow (value_of_intent (intent_of_lists removals.now writes.now))
        ≡ None) }
    // The intent has fewer than 2^63 names, so that they can be counted in 64 bits.
    ensures few { OnOk result (length removals.now + length writes.now < 2 ^ 63) }
{
    // A law that the proof needs; it computes nothing.
    an_intent_is_read_back();
    // The payload is an object of two arrays: the removals, then the writes.
    let mut draft = Draft::new(alloc);
    draft.open_list()?;
    write_names(&mut draft, removals)?;
    write_names(&mut draft, writes)?;
    draft.close_object()?;
    let payload = draft.finish()?;
    let file = file_of(alloc, INTENT_WORD, &payload)?;
    Ok(file)
}

/// A law: the container of the canonical payload of an intent is read as this intent, and the
/// intent has fewer than 2^63 names.
fn an_intent_is_read_back()
    // If the names are allowed, and the payload exceeds no limit, the container is read as the
    // intent of these lists.
    ensures read { (removals writes : List (List ℕ))
        → AreDistinctNamesAllowedInIntent (removals ++ writes)
        → counts_at_first_overflow (value_of_intent (intent_of_lists removals writes)) ≡ None
        → read_intent
        (file_of INTENT_WORD (canonical (value_of_intent (intent_of_lists removals writes))))
        ≡ Some (intent_of_lists removals writes) }
    // If the payload exceeds no limit, the intent has fewer than 2^63 names.
    ensures few { (removals writes : List (List ℕ))
        → counts_at_first_overflow (value_of_intent (intent_of_lists removals writes)) ≡ None
        → length removals + length writes < 2 ^ 63 }
{
    // Laws that the proof needs; they compute nothing.
    a_file_is_spelled();
    what_is_spelled_is_read();
    a_value_overflows_exactly_past_a_limit();
    // Laws that say that the container passes all tests, and that its values are read back.
    no_text_is_bad_where_each_keeps_its_rule();
    no_repeated_name_is_reported_if_there_is_none();
    a_container_of_a_good_value_is_sound();
    what_a_container_is_made_of_is_read_back();
}

/// Writes the names into the draft of a payload, as an array of texts.
fn write_names(draft: &mut Draft, names: &Names) -> Result<(), AllocError>
    // On Ok, the draft has this array as a further value.
    ensures { OnOk result
        (draft.new ≡ draft_with (array_or_null (plains_of_texts names.now)) draft.old) }
{
    draft.open_list()?;
    for i in 0..names.len() {
        draft.blob(names.get(i).as_bytes())?;
    }
    draft.close_array()
}

/// A copy of the list of names and of each name in it.
pub fn copy_of_names(alloc: Global, names: &Names) -> Result<Names, AllocError>
    // On Ok, the copy has the same names.
    ensures { IfOk result (λ copy. copy ≡ names.now) }
{
    let mut copy = Names::new(alloc);
    for i in 0..names.len() {
        copy.push(names.get(i).copy(alloc)?)?;
    }
    Ok(copy)
}
