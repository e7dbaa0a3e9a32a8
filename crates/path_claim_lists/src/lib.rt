//! Operations on claims in byte order of their paths: the search for a path, the first claim of
//! each path, and the paths as names of a tree. `own_core` uses them.
//!
//! `find_claim` finds the first claim of a path, `find_next_claim` does so starting at an index,
//! and `one_of_each_path` keeps only the first claim of each path. `name_of_path` joins the folder
//! and the name of a path. The contracts cite `Once` of `specs/`.
//! The rules are in `docs/commands.md`, "Files that several packages list" (a claim), and "Words"
//! (which bytes are a name).
#![tactic(auto)]

mod claims;

pub use claims::{find_claim, find_next_claim, name_of_path, names_of_claims, one_of_each_path};
pub use path_claims::{Claim, FilePath};
pub use path_clashes::{Clash, IsReleased, first_clash};
