//! What a partial selection needs: which needs its choices meet, which install-ifs trigger their
//! candidates, which choice occupies a name, and the frame of a need with its ruled-out options.
//!
//! The rules are in `docs/selection.md`, "What there is to choose from", "What satisfies world", and
//! "How the search works".
//!
//! The contracts cite `TriggeredInstallIf` of `specs/`, and `Selection` of `search_tables`.
#![tactic(auto)]

mod frame;
mod held_deps;
mod needs;

pub use frame::{Frame, RuledOutOption};
pub use held_deps::{choice_meeting_own, is_held_met};
pub use needs::{
    choice_meeting, is_met_by_latest_or_other, is_triggered_by_install_if, occupant, raisers,
};
// Names of `search_tables` and the crates below it that users of this crate need.
pub use search_tables::{
    CandId, Candidate, CandidateSet, Checkpoint, Conflicts, Deps, Details, InstallIfs, NeedRef,
    PackageDep, PackageMatches, RaisedDep, Sealed, SortedWords, is_same_id_by_nonempty_prefix,
    options_are_the_best_first, queue_all, queue_world, rank_is_total,
};
