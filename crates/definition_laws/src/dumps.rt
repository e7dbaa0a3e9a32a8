//! `adbdump` and `adbgen` undo each other: laws about the definitions of the two commands.
//!
//! They cite *dump_of* of `outcome` and *generated_file* of `gen_core`. The rules are in
//! `docs/formats.md`, "Dump text" and "Canonical layout". The body of a law calls the laws that its
//! proof needs, and has no effect at run time.

ghost use Rattle.std.specs.Prelude.{◌≡◌, ◌<◌, ℕ, All, List, Some, Ok};
ghost use Rattle.adb_block.specs.Header.{schema_of_header};
ghost use Rattle.adb_view.specs.declared.tables.Which.{Which};
ghost use Rattle.adb_view.specs.Plain.{Plain};
ghost use Rattle.outcome.specs.adb_schema.Soundness.{payload_in, root_value_of_payload, header_schema_if_root_table};
ghost use Rattle.outcome.specs.adb_write.Canonical.{payload_or_counts_at_overflow};
ghost use Rattle.outcome.specs.adb_write.File.{file_of};
ghost use Rattle.outcome.specs.pkg_core.Whole.{table_of_schema};
ghost use Rattle.outcome.specs.gen_core.Dumps.{IsNormalRootValueOfTable};
ghost use Rattle.outcome.specs.gen_core.Generated.{file_of_schema_and_payload_unless_too_large, generated_file};
ghost use Rattle.outcome.specs.Dump.{dump_of};

use adb_block::{what_is_spelled_is_read, what_is_written_is_spelled};
use adb_view::values_of_few_visits_have_no_fault;
use outcome::{
    a_canonical_payload_is_read_back, a_canonical_payload_is_visited_once,
    a_text_is_accepted_exactly_if_a_root_has_it, a_value_overflows_exactly_past_a_limit,
    values_found_in_bytes_are_of_their_table,
};

/// A law: a container that `adbgen` makes of a text is printed by `adbdump` as this text again.
pub fn what_is_generated_is_printed_again()
    ensures { (text file : List ℕ) → generated_file text ≡ Ok file → dump_of file ≡ Ok text }
{
    what_is_written_is_spelled();
    what_is_spelled_is_read();
    a_canonical_payload_is_read_back();
    a_canonical_payload_is_visited_once();
    a_value_overflows_exactly_past_a_limit();
    values_of_few_visits_have_no_fault();
    a_text_is_accepted_exactly_if_a_root_has_it();
}

/// A law: of the text that `adbdump` prints for a container, `adbgen` makes the canonical container
/// of the same value, without contents of files. It refuses the text if that container is too
/// large, with its counts. So a canonical container without contents is made from its own dump.
pub fn what_is_printed_is_generated_again()
    // The container of the text has the value of the printed container, or is too large.
    ensures value { (file text : List ℕ) (schema : ℕ) (which : Which)
        → All (λ b. b < 256) (payload_in file) → dump_of file ≡ Ok text
        → schema_of_header file ≡ Ok schema → table_of_schema schema ≡ Some which
        → generated_file text
        ≡ file_of_schema_and_payload_unless_too_large schema (payload_or_counts_at_overflow
        (root_value_of_payload which
        (payload_in file))) }
    // A canonical container without contents is made again, byte for byte.
    ensures canonical { (which : Which) (value : Plain) (schema : ℕ) (payload text : List ℕ)
        → IsNormalRootValueOfTable which value → header_schema_if_root_table which ≡ Some schema
        → payload_or_counts_at_overflow value ≡ Ok payload → dump_of (file_of schema payload)
        ≡ Ok text
        → generated_file text ≡ Ok (file_of schema payload) }
{
    what_is_written_is_spelled();
    what_is_spelled_is_read();
    a_canonical_payload_is_read_back();
    a_canonical_payload_is_visited_once();
    a_value_overflows_exactly_past_a_limit();
    values_of_few_visits_have_no_fault();
    values_found_in_bytes_are_of_their_table();
    a_text_is_accepted_exactly_if_a_root_has_it();
}
