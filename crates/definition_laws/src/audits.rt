//! A law on what an audit reports after a change: the files that the change left to the user, and
//! empty files with the digest of other bytes.
//!
//! The law cites `AfterChange` of `specs/audits/`. The rules are in `docs/commands.md`, "`audit`"
//! and "What a change does with files".

ghost use Rattle.audit_core.specs.adb_fields.FirstPair.{IsIn};
ghost use Rattle.audit_core.specs.Audit.{FileDifference};
ghost use Rattle.audit_core.specs.Differences.{file_differences};
ghost use Rattle.definition_laws.specs.audits.AfterChange.{IsEmptyFileWithOtherDigest, IsDifferenceExplainedByFilesBeforeChange, old_and_new_packages_of_change_left, contents_of_added_packages_left, packages_left};
ghost use Rattle.base_core.specs.Files.{Files};
ghost use Rattle.engine_core.specs.own_core.FileChange.{added_owner_listing};
ghost use Rattle.engine_core.specs.own_core.FilesAfter.{listing_bytes};
ghost use Rattle.engine_core.specs.change_outcome.ChangeOutcome.{ChangeDone};
ghost use Rattle.command_core.specs.Command.{CommandLine};
ghost use Rattle.audit_core.specs.db_core.Members.{Listing};
ghost use Rattle.engine_core.specs.Changed.{change_of_command};
ghost use Rattle.audit_core.specs.file_guard.AsListed.{is_as_listed};
ghost use Rattle.make_core.specs.make_info.Reads.{Reads};
ghost use Rattle.audit_core.specs.path_clashes.Clash.{NamePair};
ghost use Rattle.definition_laws.specs.roots.RootLeft.{LaterCommandsFindMembersAndNewWorld};
ghost use Rattle.std.specs.Prelude.{◌≡◌, ◌↔◌, ℕ, false, List, Ok, Option, Some};

use audit_core::{an_audit_reports_just_the_files_that_differ, listings_are_at_their_places};
use engine_core::{
    a_change_that_is_made_passes_each_test, a_database_keeps_the_entries_of_owned_files,
    a_database_lists_the_owned_files, the_files_of_an_added_package_are_as_listed,
    what_is_written_is_not_reserved,
};
use make_core::{sound_containers_hold_sound_values, the_first_bad_text_is_reported};

/// A law: after a change exactly these files differ from their entries in the database. Of a kept
/// package: each file that differed before. Of an added package: each configuration file that the
/// user changed, since it keeps its bytes; and each empty file whose entry has the digest of other
/// bytes, which no test of a package compares.
pub fn after_a_change_an_audit_reports_what_it_left_to_the_user()
    // `d` is a difference that an audit finds after the change exactly if it is explained by one of
    // these reasons. `files` are the files before the change.
    ensures each { (command : CommandLine) (read : Reads) (files : Files)
        (chosen : Option (List ℕ)) (clash : Option NamePair) (done : ChangeDone)
        (left : LaterCommandsFindMembersAndNewWorld command read chosen done) (d : FileDifference)
        → change_of_command command read files chosen clash ≡ Ok done
        → command.flags.simulate ≡ false
        → IsIn d (file_differences done.files (packages_left left))
        ↔ IsDifferenceExplainedByFilesBeforeChange (contents_of_added_packages_left left)
        (old_and_new_packages_of_change_left left) files d }
    // If the bytes that an added package has for a file are not as its own entry lists them, the
    // entry is that of an empty file with another digest.
    ensures empty { (command : CommandLine) (read : Reads) (chosen : Option (List ℕ))
        (done : ChangeDone) (left : LaterCommandsFindMembersAndNewWorld command read chosen done)
        (path : List ℕ)
        (l : Listing) → added_owner_listing (old_and_new_packages_of_change_left left) path ≡ Some l
        → is_as_listed l.entry (listing_bytes (contents_of_added_packages_left left) l) ≡ false
        → IsEmptyFileWithOtherDigest l.entry }
{
    // Laws that the proof needs; they compute nothing.
    sound_containers_hold_sound_values();
    the_files_of_an_added_package_are_as_listed();
    what_is_written_is_not_reserved();
    a_change_that_is_made_passes_each_test();
    listings_are_at_their_places();
    a_database_keeps_the_entries_of_owned_files();
    a_database_lists_the_owned_files();
    the_first_bad_text_is_reported();
    an_audit_reports_just_the_files_that_differ();
}
