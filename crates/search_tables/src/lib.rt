//! The tables of the search for a selection: sets of candidates, the conflicts of the choices and
//! the install-ifs by their names, and the queue of raised dependencies.
//!
//! The rules are in `docs/selection.md`, "What satisfies world", "Which selection is taken", and
//! "How the search works".
//!
//! The contracts cite `CandidateSet`, `Conflicts`, `InstallIf`, `NameTable`, `Queue` and `Reasons` of
//! `specs/`. Crates above cite `Selection`: what satisfies a world, and which selection is preferred.
#![tactic(auto)]

mod candidate_set;
mod conflicts;
mod install_ifs;
mod name_table;
mod queue;

pub use candidate_set::CandidateSet;
pub use conflicts::{Conflicts, ListedConflict};
pub use install_ifs::InstallIfs;
pub use name_table::NameTable;
// Names of `pool_core` and the crates below it that users of this crate need.
pub use pool_core::{
    CandId, Candidate, Deps, Details, NeedRef, Options, PackageDep, PackageMatches, Sealed,
    SortedWords, Upgrade, is_long, is_same_id_by_nonempty_prefix, options_are_the_best_first,
    rank_is_total,
};
pub use queue::{Checkpoint, RaisedDep, queue_all, queue_world};
