//! Patterns in which each `*` stands for any bytes, none too, and each other byte for itself. The
//! contracts cite `Patterns` of `specs/`, the law `Fills`. The rule is in `docs/formats.md`,
//! "Patterns".
#![tactic(auto)]

mod laws;
mod pattern;

pub use laws::a_pattern_matches_what_its_stars_are_filled_to;
pub use pattern::{matches, matches_within};
