//! The sentence with which the README of the repository begins, as one theorem.
//!
//! `Sentence` of `specs/` states the theorem. `the_sentence_holds` proves it of every run that
//! meets the contract of `apk`, and `apk_as_promised`, which the program calls, proves it of each
//! call of `apk`. Besides this call the crate computes nothing.
#![tactic(auto)]

mod root;
mod sentence;

// What the program calls, and the law.
pub use root::apk_as_promised;
pub use sentence::the_sentence_holds;
