//! What the crates above share: names, texts and words; the traits `Tree` and `Sink` for the
//! outside world, with the meaning of their calls; a read of a whole file and a write of all bytes;
//! sorted lists and byte order; and why a container is refused.
//!
//! Bytes come in and leave as `Name`, `Text`, `Words` or `Names`. The contracts cite `Lists` (what
//! is in a list), `Name` (what a name is), `Files` (files by their names), `Tree`, `Calls`,
//! `Crash`, `Undone` and `Restart` (the states of a tree, what each call makes of it, and what a
//! crash leaves), `Listed` (listings), `Faults` (the counts), `Sink`, `Sorted` and `ByteOrder`
//! (lists in order) of `specs/`; those that only inner contracts need are `Read` and `Write`.
//!
//! The rules are in `docs/crash-safety.md`, sections "A tree at one moment" to "Misuses, faults
//! and counts", in `docs/commands.md`, "Words" (what a name is), and in `docs/names.md`, *sorted*
//! and *byte order*.
#![tactic(auto)]

mod cause;
mod laws;
mod name;
mod order;
mod sink;
mod text;
mod tree;

pub use cause::{Cause, Digest};
pub use laws::{
    Durability, a_crash_in_order_keeps_the_files_of_a_durable_tree,
    a_crash_in_order_leaves_a_durable_tree, a_crash_keeps_the_files_of_a_durable_tree,
    a_crash_leaves_a_durable_tree, a_crash_leaves_each_name_where_it_led,
    a_crash_may_leave_the_files_as_read, a_crash_may_undo_any_changes,
    a_crash_may_undo_the_last_changes, a_durable_tree_is_durable_in_order,
    a_file_made_in_a_run_was_made_in_an_earlier_one, a_folder_has_one_listing,
    a_map_has_one_list_of_names, a_second_crash_in_order_leaves_the_same_files,
    a_second_crash_leaves_the_same_files, a_tree_stays_durable_if_fewer_files_must_be,
    a_tree_stays_durable_in_order_if_fewer_files_must_be, consecutive_reads_compose,
    counts_of_consecutive_calls_compose, files_have_one_list_of_names,
    the_files_as_read_have_the_names_as_read, the_files_of_a_well_formed_state_are_named_files,
};
pub use name::{Name, Names, is_folder_of, is_name};
pub use order::{sorted_texts_are_in_order, the_smallest_text_is_sorted_first};
pub use sink::{Sink, SinkFault, write_all};
pub use text::{Text, Words};
pub use tree::{Disk, Tree, TreeFault, append_file_to, read_all};
