//! What a container may contain so that no test of it fails (apk-v3(5)): laws for all makers of
//! containers.
//!
//! The laws cite `Root` (a value that may be at the root of a container) and `Container` (a
//! container made from a value and from contents of files) of `specs/`.
//!
//! The rules are in `docs/formats.md`, "Tests of a container", and for contents in "The other
//! blocks"; how a container is written, in "Canonical layout". The body of a law calls the laws
//! that its proof needs, and has no effect at run time.
#![tactic(auto)]

ghost use Rattle.adb_block.specs.Written.{block_bytes};
ghost use Rattle.pkg_core.specs.adb_schema.Soundness.{payload_in, root_value_of_payload, header_schema_if_root_table};
ghost use Rattle.pkg_core.specs.adb_schema.declared.read.TheConstants.{PACKAGE_WORD};
ghost use Rattle.adb_view.specs.declared.tables.Which.{Which};
ghost use Rattle.adb_view.specs.declared.tables.Which.TheVariants as Tables;
ghost use Rattle.adb_sound.specs.Container.{block_of_contents, container_of_value_and_contents, package_with_contents_from_parts};
ghost use Rattle.adb_sound.specs.Contents.{total_size_of_file_contents};
ghost use Rattle.adb_sound.specs.Root.{IsValidRootValueOfTable};
ghost use Rattle.adb_view.specs.Plain.{Plain};
ghost use Rattle.adb_write.specs.Canonical.{canonical};
ghost use Rattle.adb_write.specs.File.{file_of};
ghost use Rattle.pkg_core.specs.Contents.{Contents, expected_files_of_package};
ghost use Rattle.pkg_core.specs.GoodContents.{MatchEachExpectedSizeAndKnownDigest};
ghost use Rattle.pkg_core.specs.Whole.{container_fault, package_with_contents};
ghost use Rattle.std.specs.List.{flat_map};
ghost use Rattle.std.specs.Prelude.{◌≡◌, ◌≢◌, ◌<◌, ◌≤◌, ◌^◌, ℕ, List, length, map, Some, None};

use adb_block::{what_is_spelled_is_read, what_is_written_is_spelled};
use adb_view::values_of_few_visits_have_no_fault;
use adb_write::{a_canonical_payload_is_read_back, a_canonical_payload_is_visited_once};

/// A law: a container of an index, a database or a journal entry is sound (passes all tests), if
/// its value may be at the root. Such a container has no contents of files.
pub fn a_container_of_a_good_value_is_sound()
    ensures { (which : Which) (schema : ℕ) (v : Plain)
        → header_schema_if_root_table which ≡ Some schema → which ≢ Tables.Package
        → IsValidRootValueOfTable which v
        → container_fault (file_of schema (canonical v)) ≡ None }
{
    // The laws that the proof needs; they have no effect at run time.
    what_is_written_is_spelled();
    what_is_spelled_is_read();
    a_canonical_payload_is_read_back();
    a_canonical_payload_is_visited_once();
    values_of_few_visits_have_no_fault();
}

/// A law: a package is sound (passes all tests) if three conditions hold. Its value may be at the
/// root. It has exactly the contents of the files that the value lists, in order. It has fewer than
/// 2^64 bytes.
pub fn a_package_of_a_good_value_and_its_contents_is_sound()
    ensures { (v : Plain) (contents : List Contents)
        → IsValidRootValueOfTable Tables.Package v
        → MatchEachExpectedSizeAndKnownDigest (expected_files_of_package v) contents
        → length (container_of_value_and_contents PACKAGE_WORD v contents) < 2 ^ 64
        → container_fault (container_of_value_and_contents PACKAGE_WORD v contents) ≡ None }
{
    // The laws that the proof needs; they have no effect at run time.
    what_is_written_is_spelled();
    what_is_spelled_is_read();
    a_canonical_payload_is_read_back();
    a_canonical_payload_is_visited_once();
    values_of_few_visits_have_no_fault();
}

/// A law: the contents of files have together at most as many bytes as their blocks, and so fewer
/// than 2^64 if the container has fewer.
pub fn contents_are_in_their_container()
    // The contents have at most as many bytes as their blocks.
    ensures blocks { (contents : List Contents)
        → total_size_of_file_contents contents ≤ length (flat_map block_bytes
        (map block_of_contents contents)) }
    // In a container of fewer than 2^64 bytes, the contents have fewer than 2^64 bytes.
    ensures container { (schema : ℕ) (v : Plain) (contents : List Contents)
        → length (container_of_value_and_contents schema v contents) < 2 ^ 64
        → total_size_of_file_contents contents < 2 ^ 64 }
{}

/// A law: what a container was made from is read back: its value, and for a package also the
/// contents of its files in order.
pub fn what_a_container_is_made_of_is_read_back()
    // The value of a container without contents is read back.
    ensures value { (which : Which) (schema : ℕ) (v : Plain)
        → header_schema_if_root_table which ≡ Some schema → IsValidRootValueOfTable which v
        → root_value_of_payload which (payload_in (file_of schema (canonical v))) ≡ v }
    // The value and the contents of a package are read back.
    ensures contents { (v : Plain) (contents : List Contents)
        → IsValidRootValueOfTable Tables.Package v
        → MatchEachExpectedSizeAndKnownDigest (expected_files_of_package v) contents
        → length (container_of_value_and_contents PACKAGE_WORD v contents) < 2 ^ 64
        → package_with_contents (container_of_value_and_contents PACKAGE_WORD v contents)
        ≡ package_with_contents_from_parts v contents }
{
    // The laws that the proof needs; they have no effect at run time.
    what_is_written_is_spelled();
    what_is_spelled_is_read();
    a_canonical_payload_is_read_back();
    a_canonical_payload_is_visited_once();
    values_of_few_visits_have_no_fault();
}
