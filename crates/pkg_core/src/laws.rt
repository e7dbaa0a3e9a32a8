//! Theorems about the definitions, for every package. Each is a row of the README of this crate;
//! the rules are in `docs/formats.md`, "Tests of a container".
ghost use Rattle.std.specs.Prelude.{◌≡◌, ◌≢◌, ◌<◌, ℕ, All, List, None, Some};
ghost use Rattle.std.specs.Option.{option_or};
ghost use Rattle.adb_block.specs.Reading.{block_stream_from};
ghost use Rattle.adb_schema.specs.SoundContainers.{IsSoundValue};
ghost use Rattle.adb_schema.specs.Soundness.{container_fault_except_contents, payload_fault, payload_in, root_value_of_payload};
ghost use Rattle.adb_schema.specs.declared.read.TheConstants.{PACKAGE_WORD};
ghost use Rattle.adb_view.specs.declared.tables.Which.{Which};
ghost use Rattle.adb_view.specs.declared.tables.Which.TheVariants as Tables;
ghost use Rattle.adb_view.specs.Plain.{IsNormal};
ghost use Rattle.base_core.specs.declared.cause.Cause.{Cause};
ghost use Rattle.base_core.specs.declared.cause.Cause.TheVariants.{WrongSchema};
ghost use Rattle.pkg_core.specs.Contents.{contents_fault, expected_files_of_package};
ghost use Rattle.pkg_core.specs.Whole.{container_fault};
ghost use Rattle.pkg_core.specs.Front.{IsFrontOf, position_after_front, front_fault, front_payload};
ghost use Rattle.pkg_core.specs.declared.front.Front.{Front};

use adb_schema::{
    no_repeated_name_is_reported_if_there_is_none, no_text_is_bad_where_each_keeps_its_rule,
};
use adb_view::{values_are_normal, values_have_their_shape, values_of_few_visits_have_no_fault};

/// The tests of a package's front, followed by those of its values, are the tests of a whole
/// package. A failed test of the front is the first of the file. If the front is read, the first
/// failed test of the file is that of its values.
pub fn a_front_and_its_values_are_tested_as_a_whole_package()
    // A failed test of the front is the first of the package.
    ensures front { (file : List ℕ) (cause : Cause) → front_fault PACKAGE_WORD file ≡ Some cause
        → container_fault_except_contents Tables.Package file ≡ Some cause }
    // If the front is read, the first failed test of its values is the first of the package.
    ensures values { (file : List ℕ) (front : Front) → IsFrontOf PACKAGE_WORD file front
        → container_fault_except_contents Tables.Package file
        ≡ payload_fault Tables.Package (front_payload front) }
{}

/// The payload in a front is that of its file.
pub fn a_front_holds_the_payload_of_its_file()
    ensures { (file : List ℕ) (front : Front) → IsFrontOf PACKAGE_WORD file front
        → payload_in file ≡ front_payload front }
{}

/// A file with a package's front is tested by its values and then by the blocks after them. A
/// failed test of the front, except for its schema, is the first of the file.
pub fn a_package_is_tested_by_its_front_and_then_by_its_contents()
    // A failed test of the front, other than that of the schema, is the first of the file.
    ensures front { (file : List ℕ) (cause : Cause) → front_fault PACKAGE_WORD file ≡ Some cause
        → ((found : ℕ) → cause ≢ WrongSchema found) → container_fault file ≡ Some cause }
    // If the front is read, the file is tested by its values, and then by its contents.
    ensures contents { (file : List ℕ) (front : Front) → IsFrontOf PACKAGE_WORD file front
        → container_fault file
        ≡ option_or (payload_fault Tables.Package (front_payload front))
        (contents_fault (expected_files_of_package (root_value_of_payload Tables.Package
        (front_payload front)))
        (block_stream_from (position_after_front front file))) }
{}

/// A payload that passes every test contains a value with the shape of its table, in which each
/// text and number obeys the rule of its field and no name repeats. If it is read from bytes, it is
/// normal.
pub fn tested_payloads_hold_sound_values()
    // The root of such a payload has a sound value.
    ensures value { (which : Which) (payload : List ℕ) → payload_fault which payload ≡ None
        → IsSoundValue which (root_value_of_payload which payload) }
    // If the payload consists of bytes, this value is normal.
    ensures normal { (which : Which) (payload : List ℕ) → payload_fault which payload ≡ None
        → All (λ b. b < 256) payload → IsNormal (root_value_of_payload which payload) }
{
    // Laws that the proof needs; they have no effect at run time.
    values_of_few_visits_have_no_fault();
    values_have_their_shape();
    values_are_normal();
    no_text_is_bad_where_each_keeps_its_rule();
    no_repeated_name_is_reported_if_there_is_none();
}

/// Each byte is below 256.
pub fn bytes_are_small(bytes: &[u8])
    ensures { All (λ b. b < 256) bytes.now }
{}
