//! The solver: `solve` returns the preferred solution of a world in the order of its walk, or that
//! no selection satisfies the world. It takes a sealed pool and returns places of candidates. The
//! contract cites `Selection` of `search_tables`: what satisfies, the walk of a selection, which of
//! two walks is preferred, and the preferred solution (*first selection*). The rules are in
//! `docs/selection.md`, "What satisfies world", and "Which selection is taken"; "How the search
//! works" there describes how it is found.
#![tactic(auto)]

mod clauses;
mod known;
mod laws;
mod pool_rules;
mod propagation;
mod search;
mod selection;
mod trail;
mod turns;
mod watches;

pub use laws::{
    a_first_selection_exists, each_choice_is_the_best_that_can_be_completed,
    each_selection_has_one_walk, the_first_selection_is_unique, walks_have_one_order,
    walks_satisfy,
};
// Names of `search_choices` and the crates below it that users of this crate need.
pub use search_choices::{
    CandId, Candidate, Details, Sealed, SortedWords, Trace, is_same_id_by_nonempty_prefix,
};
pub use selection::solve;
