//! Theorems about candidates, ranks and options, each proved as the contract of an empty function.
//! The rules are in `docs/selection.md`: "Which selection is taken" (the rank), and "What there is
//! to choose from" (options, offers, and which package is the installed one). The fields of a
//! candidate are in `docs/formats.md`, "Schemas", table 3.
ghost use Rattle.std.specs.Prelude.{◌≡◌, ◌<◌, Bool, true, false, ℕ, List, [], ◌∷◌, ◌++◌, length, Option, Some, slice_get, codes, if◌then◌else◌};
ghost use Rattle.std.specs.Cmp.{IsTotalOrder};
ghost use Rattle.std.specs.declared.cmp.Ordering.TheVariants.{Equal};
ghost use Rattle.std.specs.List.{list_any};
ghost use Rattle.adb_view.specs.Plain.{Plain};
ghost use Rattle.adb_view.specs.Values.{int_in, text_in};
ghost use Rattle.option_ranks.specs.candidate_core.Candidates.{Candidate, Need, as_installed, candidate_from_parts, candidate_of, dependencies_in_list_value, is_same_id_by_nonempty_prefix, is_repository_package_same_as_installed, need_name, offers_name, version_of_text, with_installed_marked_or_added};
ghost use Rattle.pool_core.specs.FieldNames.{value_of_info_field_named};
ghost use Rattle.option_ranks.specs.candidate_core.Rank.{SelectionProblem, candidate_at_passes, is_better, is_eligible_at, meets_at, rank_cmp};
ghost use Rattle.option_ranks.specs.candidate_core.Options.{AreStrictlyIncreasing, IsStrictlySortedBestFirst, IsIn, options_for, places_offering};

use version_core::order_is_total;

/// The rank of a need is a strict total order on places: it is total and transitive, and no two
/// places have the same rank.
pub fn rank_is_total()
    ensures total { (pool : SelectionProblem) (need : Need) → IsTotalOrder (rank_cmp pool need) }
    // Two places with the same rank are the same place.
    ensures strict { (pool : SelectionProblem) (need : Need) (a b : ℕ) →
        rank_cmp pool need a b ≡ Equal → a ≡ b }
{
    // A law that the proof needs; it has no effect at run time.
    order_is_total();
}

/// The options of a need are exactly the candidates that may be selected and meet it, each better
/// than those after it.
pub fn options_are_the_best_first()
    // Each option may be selected, and meets the need.
    ensures those { (pool : SelectionProblem) (need : Need) (c : ℕ)
        → IsIn c (options_for pool need) →
        (is_eligible_at pool c ≡ true) × (meets_at pool c need ≡ true) }
    // Each candidate that may be selected and meets the need is an option.
    ensures each { (pool : SelectionProblem) (need : Need) (c : ℕ) → is_eligible_at pool c ≡ true →
        meets_at pool c need ≡ true → IsIn c (options_for pool need) }
    // Each option is better than those after it.
    ensures best_first { (pool : SelectionProblem) (need : Need) →
        IsStrictlySortedBestFirst (is_better pool need) (options_for pool need) }
{
    // A law that the proof needs; it has no effect at run time.
    rank_is_total();
}

/// The offers of a name are exactly the places of the candidates that offer it, in rising order.
pub fn offers_are_the_places()
    // Each place in the list has a candidate that offers the name.
    ensures those { (pool : SelectionProblem) (name : List ℕ) (c : ℕ) →
        IsIn c (places_offering name pool.candidates) →
        (candidate_at_passes pool (offers_name name) c ≡ true) × (c < length pool.candidates) }
    // The place of each candidate that offers the name is in the list.
    ensures each { (pool : SelectionProblem) (name : List ℕ) (c : ℕ) →
        candidate_at_passes pool (offers_name name) c ≡ true
        → IsIn c (places_offering name pool.candidates) }
    // The places are in rising order.
    ensures rising { (pool : SelectionProblem) (name : List ℕ) →
        AreStrictlyIncreasing (places_offering name pool.candidates) }
{}

/// The offers of a need's name include each candidate that meets the need.
pub fn offers_hold_what_meets()
    ensures { (pool : SelectionProblem) (need : Need) (c : ℕ) → meets_at pool c need ≡ true →
        IsIn c (places_offering (need_name need) pool.candidates) }
{}

/// Each part of a candidate is the value of the field with its name in `docs/formats.md`,
/// "Schemas", table 3. A definition with the number of another field would break this law.
pub fn a_candidate_is_read_by_field_names()
    ensures { (info : Plain) (repository : Option ℕ) (tag : Option (List ℕ)) (installed : Bool) →
        candidate_of info repository tag installed
        ≡ candidate_from_parts info (text_in (value_of_info_field_named (codes "name") info))
        (version_of_text (text_in (value_of_info_field_named (codes "version") info)))
        (text_in (value_of_info_field_named (codes "hashes") info))
        (dependencies_in_list_value (value_of_info_field_named (codes "depends") info))
        (dependencies_in_list_value (value_of_info_field_named (codes "provides") info))
        (dependencies_in_list_value (value_of_info_field_named (codes "install-if") info))
        (int_in (value_of_info_field_named
        (codes "provider-priority") info)) repository tag installed }
{}

/// An installed package is recognized in an index by its name, by the text of its version, and by
/// its id, of which an index may store only a prefix. Without an id it is recognized in none.
pub fn an_installed_package_is_known_by_text_and_id()
    // The names of the two are the same.
    ensures name { (installed c : Candidate)
        → is_repository_package_same_as_installed installed c ≡ true →
        c.name ≡ installed.name }
    // The texts of the two versions are the same, or neither is a version.
    ensures text { (installed c : Candidate)
        → is_repository_package_same_as_installed installed c ≡ true →
        c.version ≡ installed.version }
    // One id is a prefix of the other, and neither is empty.
    ensures id { (installed c : Candidate) → is_repository_package_same_as_installed installed c
        ≡ true →
        is_same_id_by_nonempty_prefix c.id installed.id ≡ true }
    // An installed package without an id is the same as no candidate.
    ensures empty { (installed c : Candidate) → installed.id ≡ [] →
        is_repository_package_same_as_installed installed c ≡ false }
    // Which of two ids is the prefix of the other makes no difference.
    ensures either { (a b : List ℕ) → is_same_id_by_nonempty_prefix a b
        ≡ is_same_id_by_nonempty_prefix b a }
    // An id that is not empty is the same as each longer one that begins with it.
    ensures front { (id rest : List ℕ) → 0 < length id → is_same_id_by_nonempty_prefix id (id
        ++ rest) ≡ true }
{}

/// An installed package becomes a candidate of its own only if no index has it: then this candidate
/// is the last one. Otherwise the length of the list is unchanged. Each candidate stays at its
/// place, and is marked as installed if it is the installed package.
pub fn installed_candidates_count_once()
    // If a candidate is the installed package, none is added.
    ensures once { (candidates : List Candidate) (installed : Candidate) →
        list_any (is_repository_package_same_as_installed installed) candidates ≡ true →
        length (with_installed_marked_or_added candidates installed) ≡ length candidates }
    // Otherwise the installed package is appended.
    ensures apart { (candidates : List Candidate) (installed : Candidate) →
        list_any (is_repository_package_same_as_installed installed) candidates ≡ false →
        with_installed_marked_or_added candidates installed ≡ candidates ++ installed ∷ [] }
    // Each candidate stays at its place, and is marked if it is the installed package.
    ensures kept { (candidates : List Candidate) (installed c : Candidate) (place : ℕ) →
        slice_get candidates place ≡ Some c →
        slice_get (with_installed_marked_or_added candidates installed) place
        ≡ Some (if is_repository_package_same_as_installed installed c then as_installed c else c) }
{}
