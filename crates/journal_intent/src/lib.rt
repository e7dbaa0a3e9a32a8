//! The intent, which is the journal entry of a change of several files (`lib/apk/intent`), and the
//! names that its actions need.
//!
//! `PreparedIntent` is an intent with all the memory that its actions need: made of two lists of
//! names, or read from a file. The contracts cite `Intent` (the names, the intent and the file that
//! encodes it), `IntentValue` (the plain value of its container) and `FreeNames` (what the actions
//! require of the names) of `specs/`.
//! The rules are in `docs/crash-safety.md`, "What files stand for" and "A change of several
//! files".
#![tactic(auto)]

mod container;
mod lists;
mod names;
mod prepared;

pub use adb_schema::ReadFault;
pub use adb_write::WriteFault;
pub use container::copy_of_names;
pub use names::{
    a_read_intent_has_free_names, an_intent_is_read_from_a_sound_container,
    each_staged_file_has_its_own_name, intent_name, no_name_of_the_journal_is_a_folder_of_another,
    stage_folder, the_names_of_a_change_are_free,
};
pub use prepared::PreparedIntent;
