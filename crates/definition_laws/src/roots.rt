//! Laws on the root that a change of the installed packages leaves: what the next command reads of
//! it. The next command finds the database and world that the change has made. The rules are in
//! `docs/formats.md`, "The database after a change" and "World".
//!
//! The laws cite `RootLeft` and `NextInputs` of `specs/roots/`, and the definitions of
//! `engine_core` and of the crates below it.

ghost use Rattle.std.specs.Prelude.{◌≡◌, ℕ, false, Err, List, Ok, Option};
ghost use Rattle.base_core.specs.Files.{HaveValidNamesAndBytes, Files};
ghost use Rattle.engine_core.specs.change_inputs.Inputs.{Inputs, inputs_of};
ghost use Rattle.engine_core.specs.change_outcome.ChangeOutcome.{ChangeDone};
ghost use Rattle.command_core.specs.Command.{CommandLine};
ghost use Rattle.engine_core.specs.Changed.{change_of_command};
ghost use Rattle.make_core.specs.make_info.Reads.{Reads};
ghost use Rattle.engine_core.specs.path_clashes.Clash.{NamePair};
ghost use Rattle.report_core.specs.declared.refusal.Refusal.{Refusal};
ghost use Rattle.definition_laws.specs.roots.NextInputs.{HasDatabaseAndWorldOfRootLeft, IsRefusalOfRepositoriesOrIndex};
ghost use Rattle.definition_laws.specs.roots.RootLeft.{AreAllReadFilesBytes, LaterCommandsFindMembersAndNewWorld, ReadsDatabaseAndWorldOfFiles};

use adb_view::{values_have_their_shape, values_of_few_visits_have_no_fault};
use dep_core::worlds_are_read_back;
use engine_core::{
    a_database_of_sound_packages_may_be_the_root, a_written_database_is_read_back,
    no_path_is_owned_by_two_members, packages_of_sound_containers_may_be_members,
};
use make_core::{
    a_canonical_payload_is_read_back, a_package_is_tested_by_its_values_and_then_its_files,
    a_value_overflows_exactly_past_a_limit, no_repeated_name_is_reported_if_there_is_none,
    no_text_is_bad_where_each_keeps_its_rule,
};

/// A law: if a change is neither refused nor simulated, each later command that reads the files
/// after the change finds the new world, and a database of the packages after the change, each with
/// the files that it owns.
pub fn what_a_change_leaves_is_read_by_the_next_run()
    ensures { (command : CommandLine) (read : Reads) (files : Files) (chosen : Option (List ℕ))
        (clash : Option NamePair) (done : ChangeDone) → AreAllReadFilesBytes read
        → change_of_command command read files chosen clash ≡ Ok done
        → command.flags.simulate ≡ false
        → LaterCommandsFindMembersAndNewWorld command read chosen done }
{
    // Laws that the proof needs; they have no effect at run time.
    values_of_few_visits_have_no_fault();
    values_have_their_shape();
    a_canonical_payload_is_read_back();
    a_value_overflows_exactly_past_a_limit();
    no_text_is_bad_where_each_keeps_its_rule();
    no_repeated_name_is_reported_if_there_is_none();
    packages_of_sound_containers_may_be_members();
    a_package_is_tested_by_its_values_and_then_its_files();
    no_path_is_owned_by_two_members();
    a_database_of_sound_packages_may_be_the_root();
    a_written_database_is_read_back();
    worlds_are_read_back();
}

/// A law on a later command that reads the root which a change has left. If its inputs can be read,
/// they have the packages and the world that the change has left. Otherwise it is refused for the
/// list of repositories or an index, and never for the database or world.
pub fn a_command_begins_with_what_the_last_change_left()
    // If the inputs can be read, they are those of the root that the change has left.
    ensures inputs { (command later : CommandLine) (read next : Reads) (chosen : Option (List ℕ))
        (done : ChangeDone) (inputs : Inputs)
        (left : LaterCommandsFindMembersAndNewWorld command read chosen done)
        → ReadsDatabaseAndWorldOfFiles done.files next → inputs_of later next ≡ Ok inputs
        → HasDatabaseAndWorldOfRootLeft left inputs }
    // If the inputs cannot be read, the refusal is one of the repositories or of an index.
    ensures refused { (command later : CommandLine) (read next : Reads) (chosen : Option (List ℕ))
        (done : ChangeDone) (refusal : Refusal)
        → LaterCommandsFindMembersAndNewWorld command read chosen done
        → ReadsDatabaseAndWorldOfFiles done.files next → inputs_of later next ≡ Err refusal
        → IsRefusalOfRepositoriesOrIndex refusal }
{}

/// A law: if the files have valid names and bytes, and reads find these files, then all files that
/// the reads find consist of bytes.
pub fn reads_of_named_files_find_bytes()
    ensures { (files : Files) (read : Reads) → HaveValidNamesAndBytes files
        → ((n : ℕ) (name : List ℕ) → read n name ≡ files name) → AreAllReadFilesBytes read }
{}
