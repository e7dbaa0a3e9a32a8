//! A law: when two ids are ids of the same package. The rule is in `docs/selection.md`, "What there
//! is to choose from".

ghost use Rattle.std.specs.Prelude.{◌≡◌, ◌↔◌, ℕ, List, true};
ghost use Rattle.definition_laws.specs.answers.SameIds.{AreNonemptyAndOneBeginsTheOther};
ghost use Rattle.tell_core.specs.candidate_core.Candidates.{is_same_id_by_nonempty_prefix};

/// Two ids count as the same exactly if neither is empty and one is a prefix of the other. The
/// reason is that an index may store only the first bytes of an id.
pub fn two_ids_are_the_same_exactly_if_one_begins_the_other()
    ensures { (a b : List ℕ) → (is_same_id_by_nonempty_prefix a b ≡ true)
        ↔ AreNonemptyAndOneBeginsTheOther a b }
{}
