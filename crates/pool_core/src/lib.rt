//! The pool of the solver: the candidates of indexes and of the database, the table of the names
//! that they offer, and the options of a need in rank order. Views of indexes are borrowed;
//! candidates are returned as places in the list. The contracts cite `Candidates` (the list, and
//! what each candidate meets), `Rank` (the eleven keys) and `Options` of `specs` of
//! `candidate_core`. The rules are in `docs/selection.md`, "What there is to choose from", and
//! "Which selection is taken" (the table of keys, and why).
#![tactic(auto)]

mod keeping;
mod laws;
mod marks;
mod pool;
mod sealed;
mod sorted;
mod world_marks;

pub use laws::{
    a_candidate_is_read_by_field_names, an_installed_package_is_known_by_text_and_id,
    installed_candidates_count_once, offers_are_the_places, offers_hold_what_meets,
    options_are_the_best_first, rank_is_total,
};
// Names of `option_ranks` and `candidate_core` that users of this crate need.
pub use option_ranks::{
    CandId, Candidate, Deps, Details, MOST_CANDIDATES, Need, NeedRef, Options, PackageDep,
    PackageMatches, Packages, PoolFault, RankedOption, RankedVersion, Upgrade, VersionKey, is_long,
    is_same_id_by_nonempty_prefix, rank_long_versions,
};
pub use pool::Pool;
pub use sealed::Sealed;
pub use sorted::SortedWords;
