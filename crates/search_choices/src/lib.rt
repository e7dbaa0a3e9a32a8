//! The choices of a search: the needs that they raise, the first need that no choice meets, and the
//! choice that excludes a further candidate.
//!
//! The rules are in `docs/selection.md`, "What satisfies world", and "How the search works".
//!
//! The contracts cite `Choices` of `specs/`, and `Selection` of `search_tables`.
#![tactic(auto)]

mod choices;
mod trace;

pub use choices::Choices;
// Names of `search_needs` and the crates below it that users of this crate need.
pub use search_needs::{
    CandId, Candidate, CandidateSet, Details, Frame, NeedRef, PackageMatches, RuledOutOption,
    Sealed, SortedWords, is_same_id_by_nonempty_prefix, options_are_the_best_first, rank_is_total,
};
pub use trace::Trace;
