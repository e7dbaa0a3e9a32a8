//! Theorems about the definitions of queries, each proved as the contract of an empty function. The
//! rules are in `docs/commands.md`, "`list`", "`search`" and "`policy`".
ghost use Rattle.pool_core.specs.candidate_core.Candidates.{Candidate};
ghost use Rattle.pool_core.specs.candidate_core.Options.{IsIn};
ghost use Rattle.pool_core.specs.candidate_core.Rank.{UpgradedNames, bytes_cmp, greater_version_first_cmp, selection_problem_from_parts};
ghost use Rattle.command_core.specs.Command.{CommandLine};
ghost use Rattle.command_core.specs.declared.operands.Operand.{Operand};
ghost use Rattle.dep_core.specs.Dependency.{Dependency};
ghost use Rattle.dep_core.specs.Repositories.{Repository};
ghost use Rattle.query_core.specs.Asked.{AreStrictlyInOrderBy, IsOwnOrProvidedName, IsNameMatchedBySomePattern, HasPartMatchedBySomePattern, HasCandidateWithOwnNameAndEqualVersion};
ghost use Rattle.query_core.specs.List.{is_list_candidate};
ghost use Rattle.query_core.specs.Order.{candidate_places_cmp, sorted_places_passing};
ghost use Rattle.query_core.specs.Policy.{name_policy, sorted_distinct_versions_of_name};
ghost use Rattle.query_core.specs.Queries.{text_of_query};
ghost use Rattle.query_core.specs.Search.{is_search_candidate};
ghost use Rattle.report_core.specs.QueryReports.{policy_heading};
ghost use Rattle.std.specs.Cmp.{IsTotalOrder};
ghost use Rattle.std.specs.Option.{option_cmp, option_map_or};
ghost use Rattle.std.specs.Ordering.{then_cmp};
ghost use Rattle.std.specs.Prelude.{◌≡◌, ◌⊎◌, ◌↔◌, ◌<◌, ℕ, Bool, true, false, List, [], Option, Some, is_some, slice_get};
ghost use Rattle.std.specs.declared.cmp.Ordering.TheVariants.{Equal, Greater, Less};
ghost use Rattle.version_core.specs.Order.{version_cmp};

use star_patterns::a_pattern_matches_what_its_stars_are_filled_to;
use version_core::order_is_total;

/// The order of queries is a strict total order on the places of a list of candidates: by the name,
/// then the greater version, then the text of the version, then the place.
pub fn the_order_of_queries_is_total()
    ensures total { (cs : List Candidate) → IsTotalOrder (candidate_places_cmp cs) }
    // Two places that are equal in this order are the same place.
    ensures strict { (cs : List Candidate) (a b : ℕ) → candidate_places_cmp cs a b ≡ Equal → a ≡ b }
    // The name that is less in byte order comes first.
    ensures name { (cs : List Candidate) (a b : ℕ) (x y : Candidate)
        → slice_get cs a ≡ Some x → slice_get cs b ≡ Some y
        → bytes_cmp x.name y.name ≡ Less → candidate_places_cmp cs a b ≡ Less }
    // Of candidates with one name, the one with the greater version comes first.
    ensures version { (cs : List Candidate) (a b : ℕ) (x y : Candidate) (v w : List ℕ)
        → slice_get cs a ≡ Some x → slice_get cs b ≡ Some y → x.name ≡ y.name
        → x.version ≡ Some v → y.version ≡ Some w → version_cmp v w ≡ Greater
        → candidate_places_cmp cs a b ≡ Less }
    // Of versions that are equal in the order of versions, the text that is less in byte order
    // comes first.
    ensures text { (cs : List Candidate) (a b : ℕ) (x y : Candidate) (v w : List ℕ)
        → slice_get cs a ≡ Some x → slice_get cs b ≡ Some y → x.name ≡ y.name
        → x.version ≡ Some v → y.version ≡ Some w → version_cmp v w ≡ Equal
        → bytes_cmp v w ≡ Less → candidate_places_cmp cs a b ≡ Less }
    // Of candidates with one name and one text of a version, the one at the earlier place comes
    // first.
    ensures place { (cs : List Candidate) (a b : ℕ) (x y : Candidate)
        → slice_get cs a ≡ Some x → slice_get cs b ≡ Some y → x.name ≡ y.name
        → x.version ≡ y.version → a < b → candidate_places_cmp cs a b ≡ Less }
{
    // A law that the proof needs; it has no effect at run time.
    order_is_total();
}

/// A query prints exactly the candidates that pass its test, each once and in the order of queries.
pub fn a_query_selects_what_passes_its_test()
    // Each candidate that is printed passes the test.
    ensures those { (test : Candidate → Bool) (cs : List Candidate) (place : ℕ)
        → IsIn place (sorted_places_passing test cs) →
        option_map_or test (slice_get cs place) false ≡ true }
    // Each candidate that passes the test is printed.
    ensures each { (test : Candidate → Bool) (cs : List Candidate) (place : ℕ)
        → option_map_or test (slice_get cs place) false ≡ true →
        IsIn place (sorted_places_passing test cs) }
    // The places are in the order of queries, and no place occurs twice.
    ensures order { (test : Candidate → Bool) (cs : List Candidate)
        → AreStrictlyInOrderBy (candidate_places_cmp cs) (sorted_places_passing test cs) }
{
    // A law that the proof needs; it has no effect at run time.
    order_is_total();
}

/// `list` prints a candidate if two conditions hold. No pattern is given, or the stars of a pattern
/// can be replaced by bytes so that it reads as the candidate's name. With `--installed`, the
/// candidate is installed.
pub fn list_prints_what_is_asked_for()
    ensures { (patterns : List Operand) (installed_only : Bool) (c : Candidate)
        → (is_list_candidate patterns installed_only c ≡ true)
        ↔ (((patterns ≡ []) ⊎ IsNameMatchedBySomePattern patterns c.name)
        × (installed_only ≡ true → c.installed ≡ true)) }
{
    // A law that the proof needs; it has no effect at run time.
    a_pattern_matches_what_its_stars_are_filled_to();
}

/// `search` prints a candidate if two conditions hold. The candidate is from a repository. The
/// stars of a pattern can be replaced by bytes so that the pattern reads as a part of the
/// candidate's name, or of a name that the candidate provides.
pub fn search_prints_what_is_asked_for()
    ensures { (patterns : List Operand) (c : Candidate)
        → (is_search_candidate patterns c ≡ true)
        ↔ ((is_some c.repository ≡ true)
        × ((name : List ℕ) × (IsOwnOrProvidedName c name
        × HasPartMatchedBySomePattern patterns name))) }
{
    // A law that the proof needs; it has no effect at run time.
    a_pattern_matches_what_its_stars_are_filled_to();
}

/// `policy` prints exactly the versions of the candidates whose own name is the given one, each
/// once and in order. If no candidate has the name, only the heading of the name is printed.
pub fn policy_prints_each_version_once()
    // Each version that is printed is that of a candidate of this name.
    ensures those { (cs : List Candidate) (name : List ℕ) (version : Option (List ℕ))
        → IsIn version (sorted_distinct_versions_of_name cs name)
        → HasCandidateWithOwnNameAndEqualVersion cs name version }
    // The version of each candidate of this name is printed.
    ensures each { (cs : List Candidate) (name : List ℕ) (version : Option (List ℕ))
        → HasCandidateWithOwnNameAndEqualVersion cs name version
        → IsIn version (sorted_distinct_versions_of_name cs name) }
    // The greater version comes first, and of equal versions the one whose text is less in byte
    // order.
    ensures order { (cs : List Candidate) (name : List ℕ)
        → AreStrictlyInOrderBy (then_cmp greater_version_first_cmp (option_cmp bytes_cmp))
        (sorted_distinct_versions_of_name cs name) }
    // For a name without a candidate only the heading is printed.
    ensures unknown { (cs : List Candidate) (repositories : List Repository) (name : List ℕ)
        → ((version : Option (List ℕ)) → HasCandidateWithOwnNameAndEqualVersion cs name version → ⊥)
        → name_policy cs repositories name ≡ policy_heading name }
{
    // A law that the proof needs; it has no effect at run time.
    order_is_total();
}

/// What a query prints does not depend on world, nor on the names to upgrade: a query is about all
/// candidates, also about those that may not be selected.
pub fn world_changes_no_query()
    ensures { (command : CommandLine) (cs : List Candidate) (repositories : List Repository)
        (one other : List Dependency) (upgraded others : UpgradedNames) →
        text_of_query command (selection_problem_from_parts cs one upgraded) repositories
        ≡ text_of_query command (selection_problem_from_parts cs other others) repositories }
{}
