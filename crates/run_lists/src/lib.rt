//! Lists of events (runs, stops, crashes and changes by others): what the contract of `apk` means
//! for a root that has seen any such list. The rules are in `docs/crash-safety.md`, "Recovery", its
//! last two paragraphs.
//!
//! This is a crate of definitions and laws above `apk`. `Events` of `specs/` defines a run, by the
//! clauses of `apk`, and a list of events. `Safety` says what holds of the run after such a list.
//! The laws prove this, and the contract of `run_on_a_root` proves that each call of `apk` is such
//! a run.
#![tactic(auto)]

mod laws;
mod root;

// What crates that depend on this one may call: functions, types and laws of this crate, and of
// crates on which it depends.
pub use apk_front::{Answer, apk, more_names_may_be_ignored};
pub use laws::{
    a_bad_intent_and_all_files_are_kept, a_root_that_commits_nothing_keeps_its_state,
    a_run_is_safe_after_any_events, a_stopped_run_is_recovered,
    each_name_keeps_old_recovered_or_new_bytes, no_events_leave_a_bad_intent,
    the_actions_of_an_intent_are_durably_done,
};
pub use root::run_on_a_root;
