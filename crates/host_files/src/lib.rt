//! Files of the host: what is at a path, files that stay open, their mode and owner, the lock on
//! the folder that the program runs in, and why a call fails.
//!
//! This crate is trusted: no contract can say what a host does. Read it with `host_tree`, which
//! uses it. The rules are in `docs/crash-safety.md`, "What the host's tree does".
#![tactic(auto)]

mod failure;
mod found;
mod lock;
mod nearby;
mod opened;
mod rights;

pub use failure::{Failure, HostFault, Reason, write_path};
pub use found::{Found, LookedAt, is_slash, look, look_to_write, parent_of, path_text};
pub use lock::{Held, LOCK_FOLDER, Lock, lock_root, unlock_root};
pub use nearby::LastFolder;
pub use opened::{Opened, close, is_open};
pub use rights::{FOLDER_MODE, Rights};
use std::fs::{File, Files};
use std::io::Eprint;
use std::time::Clock;

/// The parts of a runtime that these crates need: files, a clock, standard error, and memory.
pub trait Host: Files<File = File> + Clock + Eprint + AllocGlobal + Clone + Drop {}

impl<R: Files<File = File> + Clock + Eprint + AllocGlobal + Clone + Drop> Host for R {}
