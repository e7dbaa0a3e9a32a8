//! A law that joins the definitions of `Placed` in `specs/`, which know packages by their places,
//! to those of `Changes`, which know packages by their names. No document has a rule for this.
ghost use Rattle.own_core.specs.db_core.Packages.{is_package_named};
ghost use Rattle.package_changes.specs.Changes.{change_of_name, is_candidate_named};
ghost use Rattle.package_changes.specs.Placed.{ReplacementWithSelectionAsPlaces, candidates_at, candidate_at_new_place, package_at_old_place, name_with_change_and_old_and_pool_place, replacement_of};
ghost use Rattle.std.specs.List.{find};
ghost use Rattle.std.specs.Prelude.{◌≡◌, ℕ, List};

/// The two places of a name lead to the first package before the change that has the name, and to
/// the first selected candidate that has it.
pub fn places_lead_to_packages_and_candidates()
    // The *PlacedName* of a name has this name.
    ensures name { (p : ReplacementWithSelectionAsPlaces) (name : List ℕ)
        → (name_with_change_and_old_and_pool_place p name).name ≡ name }
    // The change of the name is that of the definition `change_of_name`.
    ensures change { (p : ReplacementWithSelectionAsPlaces) (name : List ℕ)
        → (name_with_change_and_old_and_pool_place p name).change
        ≡ change_of_name (replacement_of p) name }
    // The old place of the name leads to the first package with this name before the change.
    ensures old { (p : ReplacementWithSelectionAsPlaces) (name : List ℕ)
        → package_at_old_place p.before (name_with_change_and_old_and_pool_place p name)
        ≡ find (is_package_named name) p.before }
    // The new place of the name leads to the first selected candidate with this name.
    ensures new { (p : ReplacementWithSelectionAsPlaces) (name : List ℕ)
        → candidate_at_new_place p.pool (name_with_change_and_old_and_pool_place p name)
        ≡ find (is_candidate_named name) (candidates_at p.pool p.trace) }
{}
