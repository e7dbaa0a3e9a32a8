//! Theorems about selections and walks, each proved as the contract of an empty function. The rules
//! are in `docs/selection.md`, "Which selection is taken".
ghost use Rattle.std.specs.Prelude.{◌≡◌, ◌⊎◌, ℕ, true, List, [], ◌∷◌, ◌++◌, Some};
ghost use Rattle.search_choices.specs.candidate_core.Candidates.{Need};
ghost use Rattle.search_choices.specs.candidate_core.Rank.{SelectionProblem, is_better, meets_at};
ghost use Rattle.search_choices.specs.search_tables.Selection.{AreAllMembersOf, IsWalkOfCandidatesPreferredTo, IsFirstPreferredSelection, IsSatisfying, IsSelectionWalk, next_need};

use crate::selection::options_are_as_promised;
use search_choices::rank_is_total;

/// The walk of a satisfying selection satisfies too, and is its own walk.
pub fn walks_satisfy()
    // The walk of a satisfying selection is a satisfying selection too.
    ensures satisfies { (pool : SelectionProblem) (selection walk : List ℕ) →
        IsSatisfying pool selection → IsSelectionWalk pool selection walk
        → IsSatisfying pool walk }
    // The walk of a selection is its own walk.
    ensures walked { (pool : SelectionProblem) (selection walk : List ℕ) →
        IsSelectionWalk pool selection walk → IsSelectionWalk pool walk walk }
{
    // Laws that the proof needs; they have no effect at run time.
    options_are_as_promised();
    rank_is_total();
}

/// Each satisfying selection has a walk, and one only.
pub fn each_selection_has_one_walk()
    // Each satisfying selection has a walk.
    ensures some { (pool : SelectionProblem) (selection : List ℕ) →
        IsSatisfying pool selection → (walk : List ℕ) × IsSelectionWalk pool selection walk }
    // A selection has at most one walk.
    ensures one { (pool : SelectionProblem) (selection walk other : List ℕ) →
        IsSelectionWalk pool selection walk → IsSelectionWalk pool selection other → walk
        ≡ other }
{
    // Laws that the proof needs; they have no effect at run time.
    options_are_as_promised();
    rank_is_total();
}

/// The walks of satisfying selections have one order. Of two different walks, exactly one is
/// preferred to the other, at a place where both have a candidate. The order is transitive.
pub fn walks_have_one_order()
    // Of the walks of two satisfying selections, one is preferred to the other, or they are equal.
    ensures one_of { (pool : SelectionProblem) (selection other walk second : List ℕ) →
        IsSatisfying pool selection → IsSatisfying pool other →
        IsSelectionWalk pool selection walk → IsSelectionWalk pool other second →
        (walk ≡ second) ⊎ (IsWalkOfCandidatesPreferredTo pool walk second
        ⊎ IsWalkOfCandidatesPreferredTo pool second walk) }
    // Of two walks, at most one is preferred to the other.
    ensures not_both { (pool : SelectionProblem) (walk second : List ℕ) →
        IsWalkOfCandidatesPreferredTo pool walk second
        → IsWalkOfCandidatesPreferredTo pool second walk → ⊥ }
    // The order is transitive.
    ensures transitive { (pool : SelectionProblem) (a b c : List ℕ) →
        IsWalkOfCandidatesPreferredTo pool a b → IsWalkOfCandidatesPreferredTo pool b c
        → IsWalkOfCandidatesPreferredTo pool a c }
{
    // Laws that the proof needs; they have no effect at run time.
    options_are_as_promised();
    rank_is_total();
}

/// At most one selection is the preferred one: so the rules of `docs/selection.md` define it.
pub fn the_first_selection_is_unique()
    ensures { (pool : SelectionProblem) (trace other : List ℕ) →
        IsFirstPreferredSelection pool trace → IsFirstPreferredSelection pool other → trace
        ≡ other }
{
    // Laws that the proof needs; they have no effect at run time.
    options_are_as_promised();
    rank_is_total();
}

/// If any selection satisfies the world, there is a preferred one: the search may report that there
/// is none only if none satisfies.
pub fn a_first_selection_exists()
    ensures { (pool : SelectionProblem) (selection : List ℕ) →
        IsSatisfying pool selection → (trace : List ℕ) × IsFirstPreferredSelection pool trace }
{
    // Laws that the proof needs; they have no effect at run time.
    options_are_as_promised();
    rank_is_total();
}

/// Each choice of the preferred solution is the best in rank with which, and with the choices
/// before it, the world can still be satisfied.
pub fn each_choice_is_the_best_that_can_be_completed()
    // `front` are the choices before `c`, and `need` is the need that comes next after them. Of the
    // candidates `o` that meet this need and can be completed after `front`, none is better than
    // `c`.
    ensures { (pool : SelectionProblem) (front rest selection : List ℕ) (c o : ℕ) (need : Need) →
        IsFirstPreferredSelection pool (front ++ c ∷ rest) → next_need pool front ≡ Some need →
        IsSatisfying pool selection → AreAllMembersOf (front ++ o ∷ []) selection →
        meets_at pool o need ≡ true → (o ≡ c) ⊎ (is_better pool need c o ≡ true) }
{
    // Laws that the proof needs; they have no effect at run time.
    options_are_as_promised();
    rank_is_total();
}
