//! Runs the rows of a text: each command line of a row runs over a tree and two sinks in memory,
//! and its results are compared with those that the row expects.
//!
//! `run_text` takes a program and a text of rows. Its report has a line for each row, which says
//! for a failed row what differs and where, and a last line with the counts. If the text is not
//! spelled as rows are, the report has its first bad line. Nothing is proved of what is compared:
//! these are tests. The rules are in `tests/rows.md`.
#![tactic(auto)]

mod report;
mod run;
mod sweep;

pub use report::run_text;
pub use row_check::Program;
