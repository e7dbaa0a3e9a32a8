//! Compares what a row expects with the results of its runs: the tree that the row begins with,
//! what a run left and printed, and the images that a crash may leave. The rules are in
//! `tests/rows.md`.
//!
//! Nothing is proved of what is compared: these are tests.
#![tactic(auto)]

mod check;
mod recovery;
mod report;
mod start;

pub use check::{Program, Run, Trial, check_images};
pub use recovery::{Sides, images_of, new_image};
pub use report::{Piece, Report};
pub use row_text::{Row, SinkPlan, Step, read_rows};
pub use start::{are_alike, tree_of};
pub use tree_memory::{MemorySink, MemoryTree};
