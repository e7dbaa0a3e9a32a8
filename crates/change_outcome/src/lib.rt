//! The result of a command that changes the installed packages: its refusal, or its report and the
//! files that it leaves. The rules are in `docs/commands.md`, "`add` and `del`" and "What a change
//! does with files".
//!
//! `ChangeOutcome` of `specs/` defines the outcome of a selection that replaces the packages
//! before: its refusals in their order, the files afterwards, and the report. `MembersAfter`
//! defines the packages after the change, and `PackageFiles` how the file of an added package is
//! found and tested. `ConfigurationLines` defines the report on modified configuration files, and
//! `Triggers` which triggers are due.
//!
//! The code of this crate reads the packages that a change adds. Their files are found beside the
//! indexes of repositories, and each file is read in pieces and tested once. The input is the
//! change of each name (crate `package_changes`). `read_arrivals` returns the packages after the
//! change, or the refusal of the first bad package. A kept package is as the database has it, an
//! added one as its file has it. `members_of_change` makes members from them. The contracts cite
//! `MembersAfter` and `Arrivals` of `specs/`: a package that was read is the one that the
//! definition finds. The rules of this code are in `docs/commands.md`, "`add` and `del`", parts
//! "What is read" and "What is refused" (package by package, in byte order of the names). The terms
//! are in `docs/names.md`, "A change of what is installed".
//!
//! The laws hold for all changes and files. The actions of a change lead to the files of its
//! definition. Each name that a change removes or writes may be in an intent (journal entry). A
//! change keeps the paths that the next one stages free, and has at most one first clash of names.
//! The laws cite `Premises` (what they require of a change) and `Made` (what is known of a change
//! that is not refused).
#![tactic(auto)]

mod arrivals;
mod laws;
mod package;
mod scripts;

// What crates that depend on this one may call: functions, types and laws of this crate, and of
// crates on which it depends.
pub use arrivals::{
    Arrivals, a_package_that_was_read_is_that_of_its_file, members_of_change,
    packages_after_a_change_depend_on_their_reads, packages_that_were_read_are_those_found,
    read_arrivals,
};
pub use change_inputs::{
    Candidate, Loaded, Refused, Sealed, Upgrade, inputs_depend_on_their_own_reads, operand_texts,
    options_are_the_best_first,
};
pub use db_core::{
    Db, List, Members, Owned, PackageView, WriteFault, a_database_keeps_the_entries_of_owned_files,
    a_database_lists_the_owned_files, a_database_of_sound_packages_may_be_the_root,
    a_written_database_is_read_back, packages_of_sound_containers_may_be_members, write_db,
};
pub use journal_core::{Stage, an_intent_is_read_from_a_sound_container};
pub use laws::{
    a_change_has_a_first_clash_or_none, a_change_keeps_paths_free,
    a_change_that_is_made_passes_each_test, a_change_that_writes_nothing_leaves_the_files,
    actions_lead_to_given_files, the_actions_of_a_change_lead_to_its_files,
    the_names_of_a_change_may_be_changed, what_is_read_of_a_root_is_in_the_tree,
};
pub use package_changes::{
    Change, Changes, PlacedName, PlacedNames, Trace, is_same_id_by_nonempty_prefix,
    places_lead_to_packages_and_candidates, push_change_lines, push_stay_lines, push_sum_line,
    simulated_report, solve, sorted_distinct_names, the_first_selection_is_unique,
    the_lists_of_a_plan_hold_just_its_names,
};
pub use root_names::package_file_beside;
pub use star_patterns::{a_pattern_matches_what_its_stars_are_filled_to, matches};
