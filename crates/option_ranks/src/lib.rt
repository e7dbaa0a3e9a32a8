//! The order of the options of a need, which are the candidates that may meet it. The keys of each
//! option are read once, long versions are ranked among those of all options, and the first key
//! that differs decides.
//!
//! The rule is in `docs/selection.md`, "Which selection is taken", the table of eleven keys. The
//! contracts cite `Ranking` (the keys, in their order) and `VersionRanks` (the rank of a version is
//! how many precede it) of `specs/`. `Rank` of `candidate_core` defines which option is better.
#![tactic(auto)]

mod rank;
mod version_ranks;

// Names of `candidate_core` that users of this crate need.
pub use candidate_core::{
    CandId, Candidate, CandidateList, Deps, Details, IndexView, KnownMatches, MOST_CANDIDATES,
    Need, NeedRef, Options, PackageDep, PackageMatches, Packages, PkgInfo, PoolFault,
    RankedVersion, Source, Table, Upgrade, entries_keep_the_rule_of_their_list, is_long,
    is_same_id_by_nonempty_prefix, objects_field,
};
pub use rank::{RankedOption, VersionKey};
pub use version_ranks::rank_long_versions;
