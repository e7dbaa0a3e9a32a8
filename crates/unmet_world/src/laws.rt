//! Theorems about refutations, each proved as the contract of an empty function. The rules are in
//! `docs/selection.md`, "What satisfies world".
ghost use Rattle.std.specs.Prelude.{◌≡◌, ℕ, List, []};
ghost use Rattle.dep_core.specs.Dependency.{Dependency};
ghost use Rattle.dep_core.specs.Repositories.{Repository};
ghost use Rattle.search_tables.specs.candidate_core.Rank.{SelectionProblem};
ghost use Rattle.search_tables.specs.Selection.{IsSatisfying};
ghost use Rattle.unmet_world.specs.Lines.{IsExplanationOfUnmetWorldOfPool};
ghost use Rattle.unmet_world.specs.Refutation.{IsRefutation};
ghost use Rattle.unmet_world.specs.declared.refutation.Refutation.{Refutation};

use search_tables::options_are_the_best_first;

/// If there is a refutation of a world, no selection satisfies the world.
pub fn a_refuted_world_has_no_selection()
    ensures { (pool : SelectionProblem) (r : Refutation) (selection : List ℕ) →
        IsRefutation pool r → IsSatisfying pool selection → ⊥ }
{
    options_are_the_best_first();
}

/// If no selection satisfies a world, each text that explains the world has a line.
pub fn an_explanation_has_a_line()
    ensures { (pool : SelectionProblem) (listed : List Dependency) (repositories : List Repository)
        (text : List ℕ) → IsExplanationOfUnmetWorldOfPool pool listed repositories text →
        ((selection : List ℕ) → IsSatisfying pool selection → ⊥) → text ≡ [] → ⊥ }
{}
