//! The report of a change of packages that is made, not only simulated (apk(8)): lines on the
//! changes, on kept packages that were to be removed, on modified configuration files and on due
//! triggers, and the sum over the packages after the change.
//!
//! A package watches folders by patterns (apk-package(5)). Its trigger is due for each watched
//! folder in which a file is written or removed, if the package has a trigger script.
//!
//! The contracts cite `ChangeOutcome` and `Triggers` of change_outcome, and `Reported` and `Due` of
//! `specs/`. The rules are in `docs/commands.md`, "`add` and `del`", parts "What is reported" and
//! "Which triggers are due".
#![tactic(auto)]

mod configuration;
mod due;
mod pattern;
mod reporting;
mod watched;

// What crates that depend on this one may call: functions, types and laws of this crate, and of
// crates on which it depends.
pub use change_outcome::{
    Changes, Db, Loaded, Members, Owned, PlacedNames, Refused, Sealed, Stage, Trace, Upgrade,
    a_change_has_a_first_clash_or_none, a_change_keeps_paths_free,
    a_change_that_is_made_passes_each_test, a_change_that_writes_nothing_leaves_the_files,
    a_database_keeps_the_entries_of_owned_files, a_database_lists_the_owned_files,
    a_database_of_sound_packages_may_be_the_root, a_written_database_is_read_back,
    an_intent_is_read_from_a_sound_container, inputs_depend_on_their_own_reads, operand_texts,
    options_are_the_best_first, packages_of_sound_containers_may_be_members,
    places_lead_to_packages_and_candidates, simulated_report, solve, the_first_selection_is_unique,
    what_is_read_of_a_root_is_in_the_tree, write_db,
};
pub use due::{first_due, push_trigger_lines, touched_folders};
pub use own_core::{
    FilePlan, PlanFault, Write, no_path_is_owned_by_two_members, plan,
    the_files_of_an_added_package_are_as_listed, what_is_written_is_not_reserved,
};
pub use reporting::{ReportedChange, change_report};
