//! A change is carried through by the calls of a stage: its files are staged one after another, and
//! then all actions are committed, done and finished. A single file is replaced as a whole, so that
//! a crash leaves the old one or the new one: `NewFile` makes the new file piece by piece, and
//! `replace` writes one whole file with it.
//!
//! The contracts of a change cite `StageRun` of `specs/`: what such a run does to a tree, moment by
//! moment. The contracts of `NewFile` and `replace` cite `NameLengths` and `NewFilePieces`. They
//! also cite `Filling`, `Replacing`, `Reading` and `Recovery` (what recovery yields) of
//! `journal_core`. The rules are in `docs/crash-safety.md`, "A change of several files" and "A
//! whole file replaced".
#![tactic(auto)]

mod commit;
mod new_file;
mod replacing;
mod staging;

pub use commit::carry_through;
pub use journal_core::{Stage, check_targets};
pub use new_file::NewFile;
pub use replacing::replace;
pub use staging::{
    a_change_leaves_nothing_staged, a_new_stage_is_staging, a_staging_run_is_a_stage_run,
    append_piece, begin_file, end_file, runs_with_accepted_targets_begin_with_reads, stage_bytes,
    stage_pieces,
};
