//! Reads the two lists of an intent from its container, for `PreparedIntent`.
//! The rules are in `docs/formats.md`, "Schemas", table 10, and "Tests of a container".
ghost use Rattle.std.specs.Prelude.{◌≡◌, ◌<◌, ◌+◌, ◌^◌, Some, None, length, map, IfOk, IfErr, OnOk};
ghost use Rattle.adb_sound.specs.adb_fields.ListValue.{list_value};
ghost use Rattle.adb_sound.specs.adb_fields.Repeated.{list_of};
ghost use Rattle.adb_sound.specs.adb_schema.ReadFaults.{IsReadFault};
ghost use Rattle.adb_sound.specs.adb_schema.Soundness.{container_fault_except_contents};
ghost use Rattle.adb_view.specs.Values.{entries_in, text_in};
ghost use Rattle.adb_view.specs.declared.tables.Which.TheVariants.{Intent as IntentTable};
ghost use Rattle.journal_intent.specs.FreeNames.{AllAreNames};
ghost use Rattle.journal_intent.specs.Intent.{read_intent};
ghost use Rattle.journal_intent.specs.IntentValue.{intent_of_lists};

use adb_schema::{List, ReadFault, Which, read_adb, sound_containers_hold_sound_values};
use base_core::{Name, Names};
use std::alloc::{AllocError, Global};

/// The two lists of an intent, as they are read from its container.
#[derive(Drop)]
pub(crate) struct IntentLists {
    /// The names to be removed.
    pub(crate) removals: Names,
    /// The names to be written.
    pub(crate) writes: Names,
}

/// The two lists of the intent that the container `file` encodes.
///
/// # Errors
///
/// `Bad` exactly if the file is no intent container, with the first test that failed; or `Memory`.
pub(crate) fn read_lists(alloc: Global, file: &[u8]) -> Result<IntentLists, ReadFault>
    // On Ok, the file is read as the intent of these lists.
    ensures intent { IfOk result
        (λ lists. read_intent file.now ≡ Some (intent_of_lists lists.removals lists.writes)) }
    // The intent has fewer than 2^63 names, so that they can be counted in 64 bits.
    ensures few { IfOk result (λ lists. length lists.removals + length lists.writes < 2 ^ 63) }
    // An error reports the first failed test of the container, or a lack of memory.
    ensures bad { IfErr result (λ fault. IsReadFault fault
        (container_fault_except_contents IntentTable file.now)) }
    // Ok is returned only if the container passes all tests.
    ensures good { OnOk result (container_fault_except_contents IntentTable file.now ≡ None) }
{
    // A law that the proof needs; it computes nothing.
    sound_containers_hold_sound_values();
    let checked = read_adb(alloc, file, Which::Intent)?;
    let intent = checked.intent();
    let removals = names_in(alloc, intent.removals())?;
    let writes = names_in(alloc, intent.writes())?;
    Ok(IntentLists { removals, writes })
}

/// The texts of a list of a payload, each of which is a name, as names.
fn names_in<'a>(alloc: Global, list: List<'a, &'a [u8]>) -> Result<Names, AllocError>
    // Each text of the list is a name.
    requires { AllAreNames (entries_in (list_value list)) }
    // On Ok, the names are the texts of the list, in its order.
    ensures value { IfOk result
        (λ names. names ≡ map text_in (list_of (entries_in (list_value list.entry)))) }
    // A list of a payload counts its entries in 32 bits.
    ensures few { IfOk result (λ names. length names < 2 ^ 32) }
{
    let mut names = Names::new(alloc);
    for i in 0..list.len() {
        names.push(Name::of(alloc, list.get(i + 1))?)?;
    }
    Ok(names)
}
