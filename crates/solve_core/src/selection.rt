//! The preferred solution of a world, as a list of choices, or that no selection satisfies it. The
//! rules are in `docs/selection.md`: "What satisfies world", "Which selection is taken", and "How
//! the search works" for the loop.
ghost use Rattle.std.specs.Prelude.{◌≡◌, IfOk, List, ℕ, MatchOption};
ghost use Rattle.search_choices.specs.candidate_core.Candidates.{Need};
ghost use Rattle.search_choices.specs.candidate_core.Rank.{SelectionProblem};
ghost use Rattle.search_choices.specs.search_tables.Reasons.{HasOptions};
ghost use Rattle.search_choices.specs.Choices.{pool_of};
ghost use Rattle.search_choices.specs.search_tables.Selection.{IsFirstPreferredSelection, IsSatisfying};
ghost use Rattle.solve_core.specs.Underway.{IsUnderway};

use crate::search::Search;
use dep_core::World;
use search_choices::{CandId, Sealed, Trace, options_are_the_best_first};
use std::alloc::{AllocError, Global};

/// The promise of a pool about the options of each need: they are those that may be selected and
/// meet it, best first. A law that proofs of this crate call.
pub(crate) fn options_are_as_promised()
    ensures { (pool : SelectionProblem) (need : Need) → HasOptions pool need }
{
    // A law that the proof needs; it has no effect at run time.
    options_are_the_best_first();
}

/// The preferred solution of the world that the pool was sealed with, in the order of its walk.
/// None is returned only if no selection satisfies world. The only error is a lack of memory.
pub fn solve(alloc: Global, pool: &Sealed<'_>, world: &World) -> Result<Option<Trace>, AllocError>
    requires { world.now ≡ pool.now.world }
    // None: no selection satisfies world. Otherwise: the preferred selection.
    ensures { IfOk result (λ found. MatchOption found
        ((selection : List ℕ) → IsSatisfying pool.now selection → ⊥)
        (λ trace. IsFirstPreferredSelection pool.now trace)) }
{
    let mut search = Search::new(alloc, pool, world)?;
    first_selection(alloc, &mut search)
}

// The preferred solution, by a search that begins without choices. Each round makes one choice.
// `search` is borrowed, so that nothing needs to be freed if the loop ends early.
fn first_selection(alloc: Global, search: &mut Search<'_>) -> Result<Option<Trace>, AllocError>
    requires { IsUnderway search.old }
    // None: no selection satisfies world. Otherwise: the preferred selection.
    ensures { IfOk result (λ found. MatchOption found ((selection : List ℕ) →
        IsSatisfying (pool_of search.old.chosen) selection → ⊥)
        (λ trace. IsFirstPreferredSelection (pool_of search.old.chosen) trace)) }
{
    // A law that the proof needs; it has no effect at run time.
    options_are_as_promised();
    let mut next = search.next_frame()?;
    while let Some(top) = next {
        if !search.choose_next(top)? {
            return Ok(None);
        }
        next = search.next_frame()?;
    }
    // No need is unmet, so the choices are the solution.
    let trace = search.trace(alloc)?;
    Ok(Some(trace))
}
