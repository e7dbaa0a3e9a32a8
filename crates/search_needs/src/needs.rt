//! The tests whether choices meet a need, whether an install-if applies, and whether a choice
//! occupies a name. The rules are in `docs/selection.md`: "What there is to choose from" (what
//! meets a dependency), and "What satisfies world", 3 (occupied names) and 4 (install-if).
ghost use Rattle.std.specs.Prelude.{◌≡◌, ℕ, false, true, MatchBool, MatchOption, IfOk, OnOk};
ghost use Rattle.dep_core.specs.Meets.{dependency};
ghost use Rattle.search_tables.specs.candidate_core.Candidates.{entry, meets_dependency_or_has_package_name, need_name, occupies_name};
ghost use Rattle.search_tables.specs.candidate_core.Options.{IsIn, places_offering};
ghost use Rattle.search_tables.specs.candidate_core.Rank.{candidate_at_passes, meets_at};
ghost use Rattle.search_tables.specs.candidate_core.Values.{need_of_ref};
ghost use Rattle.search_tables.specs.Selection.{is_met, AreAllMembersOf};
ghost use Rattle.search_needs.specs.TriggeredInstallIf.{all_met, is_install_if_triggered_at, is_triggered_by_install_if};

use dep_core::Dep;
use search_tables::{CandId, CandidateSet, Deps, Details, NeedRef, Sealed};
use std::alloc::{AllocError, Global};

/// A choice that meets a need; None if no choice does. If the choices are fewer than the candidates
/// that offer the need's name, all choices are tried, and else these candidates.
pub fn choice_meeting(
    pool: &Sealed<'_>,
    choices: &CandidateSet,
    need: &NeedRef<'_>,
) -> Option<CandId>
    // None: no choice meets the need. Otherwise: a choice that meets it.
    ensures { MatchOption result (is_met pool.now choices.now (need_of_ref need.now)
        ≡ false) (λ id. IsIn id choices.now × (meets_at pool.now id (need_of_ref need.now)
        ≡ true)) }
{
    let offers = offers_for(pool, need);
    // The shorter list is searched: the choices, or the candidates that offer the need's name.
    if choices.as_slice().len() < offers.len() {
        return choice_among(pool, choices, choices.as_slice(), need);
    }
    choice_among(pool, choices, offers, need)
}

// The offers of the need's name: only these candidates can meet the need.
fn offers_for<'a>(pool: &'a Sealed<'_>, need: &NeedRef<'_>) -> &'a [CandId]
    ensures { result.now ≡ places_offering (need_name (need_of_ref need.now))
        pool.entry.now.candidates }
{
    match need {
        NeedRef::Entry(dep) => pool.offers(dep.name),
        NeedRef::Named(name) => pool.offers(name),
    }
}

// The first of the candidates `ids` that is a choice and meets a need. The contract does not
// promise that it is the first one.
fn choice_among(
    pool: &Sealed<'_>,
    choices: &CandidateSet,
    ids: &[CandId],
    need: &NeedRef<'_>,
) -> Option<CandId>
    // None: none of these places is that of a choice that meets the need. Otherwise: a choice that
    // meets it.
    ensures { MatchOption result ((k : ℕ) → IsIn k ids.now → IsIn k choices.now →
        meets_at pool.now k (need_of_ref need.now) ≡ false) (λ id. IsIn id choices.now
        × (meets_at pool.now id (need_of_ref need.now) ≡ true)) }
{
    for id in ids {
        if is_choice_meeting(pool, choices, *id, need) {
            return Some(*id);
        }
    }
    None
}

// Whether the candidate `id` is a choice, and meets the need.
fn is_choice_meeting(
    pool: &Sealed<'_>,
    choices: &CandidateSet,
    id: CandId,
    need: &NeedRef<'_>,
) -> bool
    // True: the place is that of a choice that meets the need. False: it is not.
    ensures { MatchBool result (IsIn id choices.now × (meets_at pool.now id
        (need_of_ref need.now) ≡ true)) (IsIn id choices.now →
        meets_at pool.now id (need_of_ref need.now) ≡ false) }
{
    if choices.has(id) {
        return meets(pool, id, need);
    }
    false
}

// Whether the candidate at a place meets a need.
fn meets(pool: &Sealed<'_>, id: CandId, need: &NeedRef<'_>) -> bool
    ensures { result ≡ meets_at pool.now id (need_of_ref need.now) }
{
    match pool.at(id) {
        None => false,
        Some(details) => meets_dependency_or_has_package_name(&details, need),
    }
}

// Whether a candidate meets a need, by its details: the name of an install-if is met only by a
// candidate of that name.
fn meets_dependency_or_has_package_name(details: &Details<'_>, need: &NeedRef<'_>) -> bool
    ensures { result ≡ meets_dependency_or_has_package_name (need_of_ref need.now) details.now }
{
    match need {
        NeedRef::Entry(dep) => details.meets(dep),
        NeedRef::Named(name) => *name == details.name(),
    }
}

// Whether a choice meets a need. `is_met_by_latest_or_other` gives the same result, and is faster
// if the latest choice was taken for this need.
fn is_met(pool: &Sealed<'_>, choices: &CandidateSet, need: &NeedRef<'_>) -> bool
    ensures { result ≡ is_met pool.now choices.now (need_of_ref need.now) }
{
    choice_meeting(pool, choices, need).is_some()
}

/// Whether a choice meets a need. The latest choice is tried first: it may have been taken for this
/// need.
pub fn is_met_by_latest_or_other(
    pool: &Sealed<'_>,
    choices: &CandidateSet,
    need: &NeedRef<'_>,
) -> bool
    ensures { result ≡ is_met pool.now choices.now (need_of_ref need.now) }
{
    if latest_meets(pool, choices.as_slice(), need) {
        return true;
    }
    is_met(pool, choices, need)
}

// Whether the latest choice meets the need; false says nothing about the earlier choices.
fn latest_meets(pool: &Sealed<'_>, choices: &[CandId], need: &NeedRef<'_>) -> bool
    ensures { result ≡ true → is_met pool.now choices.now (need_of_ref need.now) ≡ true }
{
    match choices.last() {
        None => false,
        Some(id) => meets(pool, *id, need),
    }
}

/// Whether the candidate at a place is triggered: each entry of its install-if is met, and no
/// choice has the candidate's name.
pub fn is_triggered_by_install_if(pool: &Sealed<'_>, choices: &CandidateSet, id: CandId) -> bool
    ensures { result ≡ is_install_if_triggered_at pool.now choices.now id }
{
    match pool.at(id) {
        None => false,
        Some(details) => wants(pool, choices, &details),
    }
}

// Whether a candidate is triggered, by its details: each entry of its install-if is met, and no
// choice has the candidate's name.
fn wants(pool: &Sealed<'_>, choices: &CandidateSet, details: &Details<'_>) -> bool
    ensures { result ≡ is_triggered_by_install_if pool.now choices.now details.now }
{
    if !all_met(pool, choices, &details.install_if()) {
        return false;
    }
    !is_met(pool, choices, &NeedRef::Named(details.name()))
}

// Whether each of these dependencies is met by a choice.
fn all_met(pool: &Sealed<'_>, choices: &CandidateSet, deps: &Deps<'_>) -> bool
    ensures { result ≡ all_met pool.now choices.now deps.now }
{
    for i in 0..deps.len() {
        if !is_dep_met(pool, choices, &deps.get(i)) {
            return false;
        }
    }
    true
}

// Whether a choice meets one dependency.
fn is_dep_met(pool: &Sealed<'_>, choices: &CandidateSet, dep: &Dep<'_>) -> bool
    ensures { result ≡ is_met pool.now choices.now (entry (dependency dep.now)) }
{
    is_met(pool, choices, &NeedRef::Entry(dep))
}

/// For each of these dependencies that a choice meets, one choice that meets it. If the
/// dependencies are the entries of an install-if, and all are met, these choices raise the need of
/// its name.
pub fn raisers(
    alloc: Global,
    pool: &Sealed<'_>,
    choices: &CandidateSet,
    deps: &Deps<'_>,
) -> Result<Vec<CandId>, AllocError>
    // All members of the list are choices. If all choices together meet each dependency, the
    // members of the list alone do too.
    ensures within { IfOk result (λ by. AreAllMembersOf by.items choices.now) }
    ensures met { IfOk result (λ by. all_met pool.now choices.now deps.now ≡ true →
        all_met pool.now by.items deps.now ≡ true) }
{
    let mut by = Vec::new(alloc);
    for i in 0..deps.len() {
        push_met(&mut by, pool, choices, &deps.get(i))?;
    }
    Ok(by)
}

// Appends a choice that meets the dependency to the list `by`, if there is such a choice.
fn push_met(
    by: &mut Vec<CandId>,
    pool: &Sealed<'_>,
    choices: &CandidateSet,
    dep: &Dep<'_>,
) -> Result<(), AllocError>
    // A list that has only choices still does, and each list keeps its members.
    ensures within { OnOk result (AreAllMembersOf by.old.items choices.now →
        AreAllMembersOf by.new.items choices.now) }
    ensures more { OnOk result (AreAllMembersOf by.old.items by.new.items) }
    // If a choice meets the dependency, so does a member of the new list.
    ensures met { OnOk result (is_met pool.now choices.now (entry (dependency dep.now)) ≡ true →
        is_met pool.now by.new.items (entry (dependency dep.now)) ≡ true) }
{
    match choice_meeting(pool, choices, &NeedRef::Entry(dep)) {
        None => Ok(()),
        Some(id) => {
            by.push(id)?;
            Ok(())
        }
    }
}

/// A choice that occupies a name; None if no choice does. If the choices are fewer than the
/// candidates that offer the name, all choices are tried, and else these candidates.
pub fn occupant(pool: &Sealed<'_>, choices: &CandidateSet, name: &[u8]) -> Option<CandId>
    // None: no choice occupies the name. Otherwise: a choice that occupies it.
    ensures { MatchOption result ((k : ℕ) → IsIn k choices.now →
        candidate_at_passes pool.now (occupies_name name.now) k ≡ false) (λ id. IsIn id choices.now
        × (candidate_at_passes pool.now (occupies_name name.now) id ≡ true)) }
{
    let offers = pool.offers(name);
    if choices.as_slice().len() < offers.len() {
        return occupant_among(pool, choices, choices.as_slice(), name);
    }
    occupant_among(pool, choices, offers, name)
}

// The first of the candidates `ids` that is a choice and occupies the name.
fn occupant_among(
    pool: &Sealed<'_>,
    choices: &CandidateSet,
    ids: &[CandId],
    name: &[u8],
) -> Option<CandId>
    // None: none of these places is that of a choice that occupies the name. Otherwise: a choice
    // that occupies it.
    ensures { MatchOption result ((k : ℕ) → IsIn k ids.now → IsIn k choices.now →
        candidate_at_passes pool.now (occupies_name name.now) k ≡ false) (λ id. IsIn id choices.now
        × (candidate_at_passes pool.now (occupies_name name.now) id ≡ true)) }
{
    for id in ids {
        if is_choice_occupying(pool, choices, *id, name) {
            return Some(*id);
        }
    }
    None
}

// Whether the candidate is a choice, and occupies the name.
fn is_choice_occupying(pool: &Sealed<'_>, choices: &CandidateSet, id: CandId, name: &[u8]) -> bool
    // True: the place is that of a choice that occupies the name. False: it is not.
    ensures { MatchBool result (IsIn id choices.now
        × (candidate_at_passes pool.now (occupies_name name.now) id ≡ true)) (IsIn id choices.now →
        candidate_at_passes pool.now (occupies_name name.now) id ≡ false) }
{
    if choices.has(id) {
        return occupies(pool, id, name);
    }
    false
}

// Whether the candidate at a place occupies a name: it has the name, or provides the name with a
// version.
fn occupies(pool: &Sealed<'_>, id: CandId, name: &[u8]) -> bool
    ensures { result ≡ candidate_at_passes pool.now (occupies_name name.now) id }
{
    match pool.at(id) {
        None => false,
        Some(details) => details.occupies(name),
    }
}
