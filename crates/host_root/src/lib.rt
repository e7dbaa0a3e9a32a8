//! What each call of a tree does on the host, in the folder that a program runs in: `root` has the
//! calls, `folders` the folders above a file and those that must be synced, and `targets` tests
//! what the host will allow later.
//!
//! This crate is trusted: no contract can say what a host does. Read it with `host_tree`, which
//! uses it, against the table in `docs/crash-safety.md`, "What the host's tree does".
#![tactic(auto)]

mod folders;
mod root;
mod targets;

pub use host_files::{Failure, Found, Host, HostFault, Lock, Reason, path_text};
pub use root::Root;
