//! A tree and a sink in memory, whose states contracts can see. Tests and the command `demo` fill
//! them, plan their failures, and read them back.
//!
//! Names and bytes are copied in and lent out. The contracts cite of `specs/`: `Memory` (the states
//! of a tree, its counts and its plan, and why a call fails), `Changes` (what a put does to a
//! state), `Kept` (where a file may be put), `Images` (what a crash leaves, by a number), `Plans`
//! (which calls are to fail) and `Sink` (the sink).
//! The rules are in `docs/crash-safety.md`, "What each call does" and "Misuses, faults and
//! counts".
#![tactic(auto)]

mod calls;
mod image;
mod sink;
mod store;
mod table;
mod tree;

pub use calls::{
    a_call_fails_where_it_is_planned, an_endless_sink_runs_out_of_memory,
    an_unplanned_fault_has_its_reason,
};
pub use image::{each_map_of_few_changes_is_picked, no_change_is_undone_by_0};
pub use sink::MemorySink;
pub use tree::MemoryTree;
