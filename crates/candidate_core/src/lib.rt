//! Candidates: the packages of an index or of the database, and what is read of them; the list of
//! candidates under construction with the table of the names that they offer; and needs. Views of
//! indexes are borrowed.
//!
//! The rules are in `docs/selection.md`, "What there is to choose from". The contracts cite
//! `Candidates` (a candidate, and what it meets), `Rank` (the eleven keys) and `Options` of
//! `specs/`.
#![tactic(auto)]

mod candidate;
mod candidate_list;
mod dependencies;
mod judging;
mod matches;
mod need;
mod package_matches;
mod packages;
mod table;
mod versions;

// Views of packages that users of this crate need, from `adb_schema`.
pub use adb_schema::{
    DepView, DirInfo, FileInfo, IndexView, List, PackageView, PkgInfo,
    entries_keep_the_rule_of_their_list, objects_field,
};
pub use candidate::{CandId, Candidate, Details, is_same_id_by_nonempty_prefix};
pub use candidate_list::{CandidateList, MOST_CANDIDATES, PoolFault};
pub use dependencies::Deps;
pub use matches::{KnownMatches, is_long};
pub use need::{Need, NeedRef, Options, Upgrade};
pub use package_matches::{PackageDep, PackageMatches};
pub use packages::{PackageWord, Packages, Source};
pub use table::Table;
pub use versions::{RankedVersion, VersionKind, same_version};
