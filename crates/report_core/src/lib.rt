//! The texts for the user: the error line of each refusal, which is written to a sink (output
//! stream) without memory, and the report of a command that was not refused.
//!
//! The contracts cite these modules of `specs/`: `Texts` (the error lines of refusals and of failed
//! calls) and `Reports` (the texts of reports). The rules are in `docs/commands.md`, "Error lines".
#![tactic(auto)]

mod lines;
pub mod numbers;
mod refusal;
mod sentence;

pub use lines::{Report, write_error};
pub use refusal::Refusal;
