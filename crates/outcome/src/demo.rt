//! The number of packages that `demo` makes, the command lines that it runs, and its report. The
//! rules are in `docs/commands.md`, "`demo N`".
//!
//! `DemoCount` of `specs/` defines the number that an operand means, `DemoLines` the command lines
//! that make, index and install that many small packages, and `DemoReport` the report on their
//! installation.

mod lines;
mod texts;

pub use lines::{
    add_words, demo_count, demo_line_of_count_and_add_report, mkndx_words, mkpkg_words,
};
pub use texts::{contents_of_demo_file, demo_file, demo_repositories};
