//! Changes of a tree that a crash cannot cut in two: several files are changed by a stage. It also
//! defines what files stand for, that is, what recovery yields; `journal_recovery` and
//! `journal_commit` build on that.
//!
//! The contracts cite `Recovery` (the state that files stand for, and what a crash leaves of it),
//! `Replacing` and `Reading` (replacing a whole file), `Staged` (a stage, its moments, and what a
//! recovery leaves), `Quiet` (moments at which the state does not change) and `Targets` (the names
//! that are asked for) of `specs/`, and `Intent` of `journal_intent`.
//! The rules are in `docs/crash-safety.md`, from "What files stand for" to "Recovery".
#![tactic(auto)]

mod acting;
pub mod calls;
mod fault;
mod laws;
mod publishing;
mod stage;
mod targets;

pub use fault::RecoverFault;
pub use journal_intent::{
    an_intent_is_read_from_a_sound_container, each_staged_file_has_its_own_name, intent_name,
    stage_folder,
};
pub use laws::{
    Journal, a_crash_leaves_a_durable_settled_tree, a_new_stage_has_staged_nothing,
    a_state_has_the_recovered_files, a_state_shows_a_bad_intent,
    an_empty_tree_has_free_paths_for_a_change, an_image_has_the_state_of_its_map,
    an_intent_that_is_read_has_been_published, each_write_has_its_own_bytes,
    moments_old_until_commit_compose, more_names_may_be_ignored,
    old_or_new_then_quiet_is_old_or_new, quiet_moments_compose,
    quiet_then_old_or_new_is_old_or_new, settled_then_old_or_new_is_one_of_two,
    settled_then_quiet_is_settled, the_actions_touch_the_names_of_their_intent,
    the_files_as_read_have_the_settled_state, unchanged_moments_compose,
    what_is_not_synced_is_not_safe,
};
pub use stage::{Stage, apply_all};
pub use targets::{check_target, check_targets};
