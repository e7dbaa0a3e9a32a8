//! Reads rows from a text: which files are there, which command lines run, which failures are
//! planned, and what is expected. `tests/rows.md` describes the form, in "Lines", "What goes wrong"
//! and "A text that is none".
//!
//! `read_rows` takes the bytes of a text, and returns its rows, or the line of its first fault and
//! what is wrong there. No row runs here.
#![tactic(auto)]

mod parts;
mod reader;
mod row;
mod words;

pub use reader::read_rows;
pub use row::{Content, Fault, NamedFile, Plan, Row, SinkPlan, Step, Trouble};
