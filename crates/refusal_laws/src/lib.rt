//! What a refusal of a change, or of a command that only reports, means, and which packages there
//! are after a change that is not refused. The refusals are in `docs/commands.md`, "Error lines",
//! and in the section of each command.
//!
//! The functions are laws. They cite `RunFaults`, `TestsPassed` and `PackagesAfter` of `specs/`,
//! and the definitions of `outcome` and of the crates below it.
#![tactic(auto)]

mod laws;

pub use laws::{
    a_change_that_is_made_has_no_fault, a_package_that_is_too_large_is_refused_with_its_counts,
    a_refused_audit_has_its_fault, a_refused_change_has_its_fault,
    a_refused_change_has_passed_the_tests_before, a_refused_command_has_its_fault,
    a_refused_info_has_its_fault, a_refused_input_has_its_fault, a_refused_manifest_has_its_fault,
    a_refused_package_is_the_first_with_a_fault, a_refused_query_has_its_fault,
    a_refused_run_has_its_fault, a_refused_selection_has_passed_the_tests_before,
    the_packages_after_a_change_are_the_selected_ones,
    the_packages_after_a_run_are_those_of_the_first_selection,
};
pub use outcome::{
    a_change_takes_the_first_selection_or_is_refused, a_command_recovers, an_outcome_is_unique,
};
