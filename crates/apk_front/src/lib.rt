//! The top call of the package manager: `apk` takes arguments, a tree of files and two sinks
//! (output streams), and returns an answer. The crate `apk` calls it with the folder of the host.
//!
//! A run is first judged and carried out on the tree, and then printed on the sinks. The contract
//! of `apk` cites `outcome` (what a command answers, prints and leaves), `words_core` (what the
//! arguments ask for) and `journal_core` (what a crash leaves). Of `specs/` it cites `Answers` (how
//! an answer relates to an outcome, and what may replace it) and `Moments` (the effect of a run on
//! the tree).
#![tactic(auto)]

mod answer;
mod change_root;
mod demo;
mod dump;
mod front;
mod generate;
mod judge;
mod laws;
mod make;
mod recovered;
mod report;
mod verify;
mod version;

// What crates that depend on this one may call: functions, types and laws of this crate, and of
// crates on which it depends.
pub use answer::{Answer, status};
pub use engine_core::a_change_keeps_paths_free;
pub use front::apk;
pub use journal_core::{
    a_crash_leaves_a_durable_settled_tree, a_state_shows_a_bad_intent,
    an_intent_is_read_from_a_sound_container, more_names_may_be_ignored,
};
pub use judge::{RootAccess, access_for};
pub use laws::{
    a_crash_leaves_the_old_files_or_those_of_the_outcome, what_is_carried_out_is_durable,
    without_recovery_the_files_are_the_old_ones,
};
pub use outcome::{
    a_command_that_commits_nothing_leaves_the_files, a_command_that_makes_commits_unless_refused,
    a_command_that_reads_leaves_the_files, a_reporting_command_leaves_the_files,
    an_outcome_is_unique, only_a_bad_intent_is_refused_as_one,
};
pub use report_core::Refusal;
