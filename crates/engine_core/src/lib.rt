//! A change of the installed packages: `add`, `del`, `upgrade` and `fix`, from their arguments to
//! their report or refusal. `apk_front` calls `change` after recovery.
//!
//! The contract of `change` cites three modules of `specs/`. `ChangeRun` defines the answer of a
//! run and its effect on the tree. `Changed` defines the result of a command, by the files that are
//! read and the candidates that are chosen. `Choice` defines which candidates are chosen. Laws in
//! `choosing` say that there is exactly one choice. Each command's rules are in `docs/commands.md`,
//! under its name.
#![tactic(auto)]

mod changing;
mod choosing;
mod committing;
mod making;
mod packages;
mod planning;
mod records;
mod removals;
mod rendering;
mod targets;
mod wishes;
mod writes;

// What crates that depend on this one may call: functions, types and laws of this crate, and of
// crates on which it depends.
pub use change_report::{
    Refused, a_change_has_a_first_clash_or_none, a_change_keeps_paths_free,
    a_change_that_is_made_passes_each_test, a_change_that_writes_nothing_leaves_the_files,
    a_database_keeps_the_entries_of_owned_files, a_database_lists_the_owned_files,
    a_database_of_sound_packages_may_be_the_root, a_written_database_is_read_back,
    an_intent_is_read_from_a_sound_container, no_path_is_owned_by_two_members,
    packages_of_sound_containers_may_be_members, the_files_of_an_added_package_are_as_listed,
    what_is_read_of_a_root_is_in_the_tree, what_is_written_is_not_reserved,
};
pub use changing::change;
pub use choosing::{a_choice_exists, a_choice_is_unique};
pub use journal_staging::{PackageTest, test_package};
