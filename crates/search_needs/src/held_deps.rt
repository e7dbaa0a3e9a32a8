//! The search for a choice that meets a dependency of a candidate: a conflict of a candidate that
//! is no choice yet, or a dependency that a choice raised. The rules are in `docs/selection.md`:
//! "What satisfies world", 1 (dependencies are met) and 2 (no conflict of a selected package is met
//! by another one), and "What there is to choose from" (what meets a dependency). Comparing long
//! versions only once saves time.
ghost use Rattle.std.specs.Prelude.{◌≡◌, ℕ, false, true, IfOk, MatchBool, MatchOption, OnOk};
ghost use Rattle.dep_core.specs.Meets.{dependency};
ghost use Rattle.search_tables.specs.candidate_core.Candidates.{entry};
ghost use Rattle.search_tables.specs.candidate_core.Options.{IsIn};
ghost use Rattle.search_tables.specs.candidate_core.PackageMatches.{AreMatchesAmong, IsDepOfPackageAt};
ghost use Rattle.search_tables.specs.candidate_core.Rank.{meets_at};
ghost use Rattle.search_tables.specs.Selection.{is_met};

use crate::needs::{choice_meeting, is_met_by_latest_or_other};
use search_tables::{CandId, CandidateSet, NeedRef, PackageDep, PackageMatches, Sealed, is_long};
use std::alloc::AllocError;

/// A choice that meets a dependency of a candidate; None if no choice does. The dependency may be a
/// conflict. If the choices are fewer than the candidates that offer the dependency's name, all
/// choices are tried, and else these candidates. Results for long versions are remembered.
///
/// # Errors
///
/// Out of memory.
pub fn choice_meeting_own(
    pool: &Sealed<'_>,
    choices: &CandidateSet,
    held: &PackageDep<'_>,
    matches: &mut PackageMatches<'_>,
) -> Result<Option<CandId>, AllocError>
    // The dependency is that of the candidate at the stored place, with the stored index. The
    // remembered results are right for the pool, before the call and after it.
    requires held { IsDepOfPackageAt pool.now.candidates held.now }
    requires matches { AreMatchesAmong pool.now.candidates matches.old }
    // None: no choice meets the dependency. Otherwise: a choice that meets it.
    ensures found { IfOk result (λ found. MatchOption found
        (is_met pool.now choices.now (entry (dependency held.now.dep.now)) ≡ false)
        (λ id. IsIn id choices.now
        × (meets_at pool.now id (entry (dependency held.now.dep.now)) ≡ true))) }
    ensures matches { OnOk result (AreMatchesAmong pool.now.candidates matches.new) }
{
    if !is_long(&held.dep.version) {
        return Ok(choice_meeting(pool, choices, &NeedRef::Entry(held.dep)));
    }
    let offers = pool.offers(held.dep.name);
    if choices.as_slice().len() < offers.len() {
        return choice_among(pool, choices, choices.as_slice(), held, matches);
    }
    choice_among(pool, choices, offers, held, matches)
}

/// Whether a choice meets a dependency of a candidate. If the dependency has no long version, the
/// latest choice is tried first. Results for long versions are remembered.
///
/// # Errors
///
/// Out of memory.
pub fn is_held_met(
    pool: &Sealed<'_>,
    choices: &CandidateSet,
    held: &PackageDep<'_>,
    matches: &mut PackageMatches<'_>,
) -> Result<bool, AllocError>
    // The dependency is that of the candidate at the stored place, with the stored index. The
    // remembered results are right for the pool, before the call and after it.
    requires held { IsDepOfPackageAt pool.now.candidates held.now }
    requires matches { AreMatchesAmong pool.now.candidates matches.old }
    // The answer is whether a choice meets the dependency.
    ensures met { IfOk result (λ met. met
        ≡ is_met pool.now choices.now (entry (dependency held.now.dep.now))) }
    ensures matches { OnOk result (AreMatchesAmong pool.now.candidates matches.new) }
{
    if !is_long(&held.dep.version) {
        let need = NeedRef::Entry(held.dep);
        return Ok(is_met_by_latest_or_other(pool, choices, &need));
    }
    let found = choice_meeting_own(pool, choices, held, matches)?;
    Ok(found.is_some())
}

// The first of the candidates `ids` that is a choice and meets a dependency of another candidate.
// The contract does not promise that it is the first one.
fn choice_among(
    pool: &Sealed<'_>,
    choices: &CandidateSet,
    ids: &[CandId],
    held: &PackageDep<'_>,
    matches: &mut PackageMatches<'_>,
) -> Result<Option<CandId>, AllocError>
    // The dependency is that of the candidate at the stored place, with the stored index.
    requires held { IsDepOfPackageAt pool.now.candidates held.now }
    requires matches { AreMatchesAmong pool.now.candidates matches.old }
    // None: none of these places is that of a choice that meets the dependency. Otherwise: a choice
    // that meets it.
    ensures found { IfOk result (λ found. MatchOption found
        ((k : ℕ) → IsIn k ids.now → IsIn k choices.now →
        meets_at pool.now k (entry (dependency held.now.dep.now)) ≡ false)
        (λ id. IsIn id choices.now
        × (meets_at pool.now id (entry (dependency held.now.dep.now)) ≡ true))) }
    ensures matches { OnOk result (AreMatchesAmong pool.now.candidates matches.new) }
{
    for id in ids {
        let is_met = is_met_by_choice(pool, choices, *id, held, matches)?;
        if is_met {
            return Ok(Some(*id));
        }
    }
    Ok(None)
}

// Whether the candidate `id` is a choice, and meets a dependency of another candidate.
fn is_met_by_choice(
    pool: &Sealed<'_>,
    choices: &CandidateSet,
    id: CandId,
    held: &PackageDep<'_>,
    matches: &mut PackageMatches<'_>,
) -> Result<bool, AllocError>
    // The dependency is that of the candidate at the stored place, with the stored index.
    requires held { IsDepOfPackageAt pool.now.candidates held.now }
    requires matches { AreMatchesAmong pool.now.candidates matches.old }
    // True: the place is that of a choice that meets the dependency. False: it is none of these.
    ensures met { IfOk result (λ met. MatchBool met (IsIn id choices.now
        × (meets_at pool.now id (entry (dependency held.now.dep.now)) ≡ true))
        (IsIn id choices.now →
        meets_at pool.now id (entry (dependency held.now.dep.now)) ≡ false)) }
    ensures matches { OnOk result (AreMatchesAmong pool.now.candidates matches.new) }
{
    if !choices.has(id) {
        return Ok(false);
    }
    is_met_by(pool, id, held, matches)
}

// Whether the candidate `id` meets a dependency of another candidate.
fn is_met_by(
    pool: &Sealed<'_>,
    id: CandId,
    held: &PackageDep<'_>,
    matches: &mut PackageMatches<'_>,
) -> Result<bool, AllocError>
    // The dependency is that of the candidate at the stored place, with the stored index.
    requires held { IsDepOfPackageAt pool.now.candidates held.now }
    requires matches { AreMatchesAmong pool.now.candidates matches.old }
    // The answer is whether the candidate meets the dependency.
    ensures meets { IfOk result (λ meets. meets
        ≡ meets_at pool.now id (entry (dependency held.now.dep.now))) }
    ensures matches { OnOk result (AreMatchesAmong pool.now.candidates matches.new) }
{
    let place = id.place as usize;
    if place >= pool.len() {
        return Ok(false);
    }
    matches.meets(place, held)
}
