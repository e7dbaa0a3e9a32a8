//! What the numbers of a refusal stand for: lines for a person, which follow the error line.
//!
//! A refusal names words, repositories, lines and fields by their numbers. `hints` finds the word,
//! the path, the line or the field, and `explain` writes a line for each. Nothing is changed: the
//! tree is only read, and only if the refusal is about one of its files. The contracts cite `Hints`
//! (what a refusal is about, and what its numbers stand for), `Lines` (the lines that are written)
//! and `Told` (what a call writes) of `specs/`. `Truths` says when a hint is true, apart from how
//! it is found, and the law `hints_are_so` proves that hints are. The rules are in
//! `docs/commands.md`, "Hints".
#![tactic(auto)]

mod contents;
mod find;
mod hint;
mod laws;
mod lines;
mod package_file;
mod package_paths;
mod places;
mod printed;
mod telling;
mod warning;

pub use contents::{MixedUp, explain_contents};
pub use find::hints;
pub use hint::{Hint, HintFile, Hints, Subject};
pub use laws::{hints_are_so, tags_without_a_repository_are_warned_of};
pub use package_file::{explain_package, no_index_line};
pub use printed::push_printed;
pub use telling::{HintFault, explain};
pub use warning::{warn, write_lines};
