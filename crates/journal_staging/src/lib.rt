//! Stages the files of a change, from given bytes, as links, and from packages piece by piece, and
//! carries the change through. The rules are in `docs/crash-safety.md`, "A change of several
//! files".
//!
//! `carry_out` does this, given the stage of the change. The contracts cite `Sources` (which bytes
//! a source denotes), `Carried` and `Spoiled` (what is reported of a package that was changed since
//! its test) of `specs/`, and `StageRun` of `journal_commit`.
#![tactic(auto)]

mod carrying;
mod file;
mod writes;

pub use carrying::carry_out;
pub use file_guard::{DirInfo, FileInfo, List, PackageView};
pub use journal_commit::runs_with_accepted_targets_begin_with_reads;
pub use package_verifier::{PackageTest, Piece, test_package};
pub use writes::{PackagedFile, Source, StageFault, StagedWrite};
