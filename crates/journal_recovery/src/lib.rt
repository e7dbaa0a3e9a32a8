//! The recovery of a root: an interrupted change is finished, and staged files are removed.
//!
//! The contracts cite `Recovery` (what files stand for), `Quiet`, `Staged` and `Kept` of
//! `journal_core`.
//! The rules are in `docs/crash-safety.md`, "Recovery".
#![tactic(auto)]

mod recovering;

pub use journal_core::RecoverFault;
pub use recovering::recover;
