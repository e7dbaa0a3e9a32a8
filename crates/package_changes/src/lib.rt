//! What happens to each package if a selection replaces the packages before, and the lines that
//! report this. The functions take a database, a pool of candidates and a selection. They return
//! the changes with their places, and reports: a line for each change, for each kept package that
//! was to be removed, and the sum over the packages afterwards.
//!
//! The contracts cite `Changes` (what happens to a package), `Placed` (the places of the packages
//! that change) and `Report` of `specs/`.
//!
//! The rules are in `docs/commands.md`, "`add` and `del`" (a line for each package that changes, in
//! byte order of the names; part "What is reported"), and "`upgrade` and `fix`" (which packages are
//! installed again);
//! the terms in `docs/names.md`, "A change of what is installed".
#![tactic(auto)]

mod change;
mod changes;
mod laws;
mod names;
mod placed;
mod report;
mod selected;
mod stays;

// What crates that depend on this one may call: functions, types and laws of this crate, and of
// crates on which it depends.
pub use change::{Change, PlacedChange};
pub use changes::Changes;
pub use laws::places_lead_to_packages_and_candidates;
pub use names::{names_of_words, sorted_distinct_names};
pub use own_core::the_lists_of_a_plan_hold_just_its_names;
pub use placed::{PlacedName, PlacedNames};
pub use report::{push_change_lines, push_sum_line, simulated_report};
pub use selected::{SelectedNames, candidate_at};
pub use solve_core::{Trace, is_same_id_by_nonempty_prefix, solve, the_first_selection_is_unique};
pub use stays::push_stay_lines;
