//! The fixed names of the journal: those of the intent, of the staging area's folder, and of the
//! staged files. Laws say how these names differ, and which names an intent may have.
//! The rules are in `docs/crash-safety.md`, "A change of several files", the table of names; the
//! law of free names in `docs/formats.md`, "The texts" and "Names that stand twice".

ghost use Rattle.std.specs.Prelude.{◌≡◌, IfOk, ◌≢◌, ◌<◌, ◌^◌, ◌++◌, ℕ, true, List, Some, None};
ghost use Rattle.journal_intent.specs.FreeNames.{stage_names_from, HasFreeNamesAndUnrepeatedWrites, IsIntentNameOrNumberedStageName};
ghost use Rattle.journal_intent.specs.Intent.{intent_name, stage_folder, stage_name, AreDistinctNamesAllowedInIntent, Intent, intent_of_value, is_staged, read_intent};
ghost use Rattle.adb_sound.specs.adb_schema.Soundness.{container_fault_except_contents, payload_in, root_value_of_payload};
ghost use Rattle.adb_view.specs.declared.tables.Which.TheVariants.{Intent as IntentTable};
ghost use Rattle.base_core.specs.Files.{IsFolderOf};
ghost use Rattle.base_core.specs.Name.{is_name};
ghost use Rattle.base_core.specs.declared.cause.Cause.{Cause};
ghost use Rattle.journal_intent.specs.IntentValue.{intent_of_lists};

use adb_schema::sound_containers_hold_sound_values;
use base_core::{Name, Names};
use std::alloc::{AllocError, Global};

/// The name of the intent, `lib/apk/intent`.
pub fn intent_name(alloc: Global) -> Result<Name, AllocError>
    // On Ok, the name is that of the intent.
    ensures { IfOk result (λ name. name ≡ intent_name) }
{
    Name::of(alloc, b"lib/apk/intent")
}

/// The folder of the staging area, `lib/apk/stage`.
pub fn stage_folder(alloc: Global) -> Result<Name, AllocError>
    // On Ok, the name is that of this folder.
    ensures { IfOk result (λ name. name ≡ stage_folder) }
{
    Name::of(alloc, b"lib/apk/stage")
}

/// The names of the staged files with the numbers below `count`: 0, 1 and so on.
pub(crate) fn stage_names(alloc: Global, count: usize) -> Result<Names, AllocError>
    // On Ok, these are the names, in the order of the numbers.
    ensures { IfOk result (λ names. names ≡ stage_names_from 0 count) }
{
    let mut names = Names::new(alloc);
    for k in 0..count {
        names.push(stage_name(alloc, k)?)?;
    }
    Ok(names)
}

/// The name of the staged file with the number `k`: `lib/apk/stage/` and the number.
fn stage_name(alloc: Global, k: usize) -> Result<Name, AllocError>
    // On Ok, the name is that of this staged file.
    ensures { IfOk result (λ name. name ≡ stage_name k) }
{
    let text = format!(in alloc; "lib/apk/stage/{k}")?;
    Name::of(alloc, text.as_bytes())
}

/// A law: an intent is read from a container that passes all tests, and from no other bytes.
pub fn an_intent_is_read_from_a_sound_container()
    // If the container passes all tests, the intent of its value is read.
    ensures sound { (file : List ℕ) → container_fault_except_contents IntentTable file ≡ None
        → read_intent file ≡ Some (intent_of_value (root_value_of_payload IntentTable
        (payload_in file))) }
    // If a test of the container fails, no intent is read.
    ensures other { (file : List ℕ) (cause : Cause)
        → container_fault_except_contents IntentTable file ≡ Some cause
        → read_intent file ≡ None }
{}

/// A law: staged files with different numbers have different names, which are valid names in the
/// staging area, and not the intent's.
pub fn each_staged_file_has_its_own_name()
    // Numbers of 64 bits that give the same name are equal.
    ensures apart { (j k : ℕ) → j < 2 ^ 64 → k < 2 ^ 64 → stage_name j ≡ stage_name k → j ≡ k }
    // Each such name is in the staging area.
    ensures staged { (k : ℕ) → is_staged (stage_name k) ≡ true }
    // No such name is the intent's.
    ensures no_intent { (k : ℕ) → stage_name k ≢ intent_name }
    // Each such name is a valid name of a tree.
    ensures named { (k : ℕ) → is_name (stage_name k) ≡ true }
{}

/// A law: the intent and the staged files can exist together, since the name of none of them is a
/// folder of another's name.
pub fn no_name_of_the_journal_is_a_folder_of_another()
    ensures { (p q : List ℕ) → IsIntentNameOrNumberedStageName p
        → IsIntentNameOrNumberedStageName q → IsFolderOf p q → ⊥ }
{}

/// A law: an intent that is read from a file has free names. None is the intent's own name or in
/// the staging area, no write is repeated, and no written name is removed.
pub fn a_read_intent_has_free_names()
    ensures { (file : List ℕ) (intent : Intent) → read_intent file ≡ Some intent
        → HasFreeNamesAndUnrepeatedWrites intent }
{
    // A law that the proof needs; it computes nothing.
    sound_containers_hold_sound_values();
}

/// A law: if the names of two lists are allowed in an intent and none is repeated, the intent of
/// these lists has free names, no write is repeated, and no written name is removed.
pub fn the_names_of_a_change_are_free()
    ensures { (removals writes : List (List ℕ)) → AreDistinctNamesAllowedInIntent (removals
        ++ writes)
        → HasFreeNamesAndUnrepeatedWrites (intent_of_lists removals writes) }
{}
