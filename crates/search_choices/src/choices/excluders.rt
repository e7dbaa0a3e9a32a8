//! The search for a choice that excludes a further candidate. Such a choice has a conflict that the
//! candidate meets, meets a conflict of the candidate, or occupies a name that the candidate
//! occupies. The rules are in `docs/selection.md`, "What satisfies world", 2 and 3. If a function
//! here returns None, its contract says for which names or conflicts no choice excludes the
//! candidate. Together these prove that no choice excludes the candidate at all.
ghost use Rattle.std.specs.Prelude.{◌≡◌, ◌<◌, ℕ, length, true, false, IfOk, MatchOption, OnOk, Some, is_some, slice_get};
ghost use Rattle.dep_core.specs.Dependency.{Dependency};
ghost use Rattle.dep_core.specs.Meets.{dependency};
ghost use Rattle.search_needs.specs.candidate_core.Candidates.{entry, occupies_name};
ghost use Rattle.search_needs.specs.candidate_core.Options.{IsIn};
ghost use Rattle.search_needs.specs.candidate_core.PackageMatches.{AreMatchesAmong};
ghost use Rattle.search_needs.specs.candidate_core.Rank.{candidate_at_passes};
ghost use Rattle.search_choices.specs.Choices.{IsConsistent, choices_of, pool_of};
ghost use Rattle.search_choices.specs.ExcluderSearch.{FindsExcluder, HasConflictsOfChoices, IsUnchosenCandidate};
ghost use Rattle.search_needs.specs.search_tables.Excluders.{IsExcluderAmongChoices, IsNotExcludedAt};
ghost use Rattle.search_needs.specs.search_tables.Selection.{exclude_each_other, is_met, occupied_names};

use super::Choices;
use dep_core::Dep;
use search_needs::{CandId, Details, PackageDep, PackageMatches, choice_meeting_own, occupant};
use std::alloc::AllocError;

impl<'p> Choices<'p> {
    /// A choice that excludes the candidate `id`, which is no choice: no satisfying selection has
    /// both. None if there is none. Results for long versions are remembered.
    ///
    /// # Errors
    ///
    /// Out of memory.
    pub fn excluder(
        &self,
        id: CandId,
        matches: &mut PackageMatches<'_>,
    ) -> Result<Option<CandId>, AllocError>
        requires consistent { IsConsistent self.now }
        requires within { id < length (pool_of self.now).candidates }
        // The candidate is no choice.
        requires once { IsIn id (choices_of self.now) → ⊥ }
        requires matches { AreMatchesAmong (pool_of self.now).candidates matches.old }
        // None: no choice and the candidate exclude each other. Otherwise: a choice that excludes
        // the candidate.
        ensures found { IfOk result (λ found. MatchOption found
            ((k : ℕ) → IsIn k (choices_of self.now) →
            exclude_each_other (pool_of self.now) k id ≡ false)
            (λ k. IsExcluderAmongChoices (pool_of self.now) (choices_of self.now) id k)) }
        ensures matches { OnOk result (AreMatchesAmong (pool_of self.now).candidates matches.new) }
    {
        let details = self.pool.details(id);
        // First by the candidate's own name, which it occupies.
        let by_name = self.excluder_at(details.name(), true, &details, id, matches)?;
        match by_name {
            Some(excluder) => Ok(Some(excluder)),
            None => self.other_excluder(&details, id, matches),
        }
    }

    // A choice that excludes the candidate, by a name that the candidate provides or by a conflict
    // of the candidate.
    fn other_excluder(
        &self,
        details: &Details<'_>,
        id: CandId,
        matches: &mut PackageMatches<'_>,
    ) -> Result<Option<CandId>, AllocError>
        requires choices { HasConflictsOfChoices self.now }
        requires candidate { IsUnchosenCandidate self.now id details.now }
        requires matches { AreMatchesAmong (pool_of self.now).candidates matches.old }
        // None: no choice excludes the candidate by a name that it provides, and no choice meets a
        // conflict of the candidate.
        ensures { FindsExcluder self.now id
            (((p : Dependency) → IsIn p details.now.provides →
            p.conflict ≡ false → IsNotExcludedAt (pool_of self.now)
            (choices_of self.now) details.now
            p.name (is_some p.version))
            × ((d : Dependency) → IsIn d details.now.depends →
            d.conflict ≡ true → is_met (pool_of self.now) (choices_of self.now) (entry d) ≡ false))
            matches.new result }
    {
        let provided = self.excluder_by_provides(details, id, matches)?;
        match provided {
            Some(excluder) => Ok(Some(excluder)),
            None => self.excluder_by_conflicts(details, id, matches),
        }
    }

    // A choice that has a conflict of this name which the candidate meets, or, if the candidate
    // occupies the name (`is_occupied`), a choice that occupies it too.
    fn excluder_at(
        &self,
        name: &[u8],
        is_occupied: bool,
        details: &Details<'_>,
        id: CandId,
        matches: &mut PackageMatches<'_>,
    ) -> Result<Option<CandId>, AllocError>
        requires choices { HasConflictsOfChoices self.now }
        requires candidate { IsUnchosenCandidate self.now id details.now }
        // If `is_occupied` is true, the candidate occupies the name.
        requires occupied { is_occupied ≡ true → IsIn name.now (occupied_names details.now) }
        requires matches { AreMatchesAmong (pool_of self.now).candidates matches.old }
        // None: no choice excludes the candidate by this name.
        ensures { FindsExcluder self.now id
            (IsNotExcludedAt (pool_of self.now)
            (choices_of self.now) details.now name.now is_occupied)
            matches.new result }
    {
        let against = self.conflicts.choice_against(name, id, matches)?;
        match against {
            Some(excluder) => Ok(Some(excluder)),
            None => Ok(self.occupant_at(name, is_occupied)),
        }
    }

    // A choice that occupies a name; None if there is none, or if `is_occupied` is false.
    fn occupant_at(&self, name: &[u8], is_occupied: bool) -> Option<CandId>
        // None: no choice occupies the name, or `is_occupied` is false. Otherwise: a choice that
        // occupies the name, and `is_occupied` is true.
        ensures { MatchOption result (is_occupied ≡ true → (k : ℕ) →
            IsIn k (choices_of self.now)
            → candidate_at_passes (pool_of self.now) (occupies_name name.now) k
            ≡ false) (λ k. (is_occupied ≡ true) × IsIn k (choices_of self.now)
            × (candidate_at_passes (pool_of self.now) (occupies_name name.now) k ≡ true)) }
    {
        if is_occupied {
            return occupant(self.pool, &self.choices, name);
        }
        None
    }

    // A choice that excludes the candidate by the name of an entry of its provides. The choice has
    // a conflict of this name that the candidate meets; or it occupies the name, and the entry has
    // a version.
    fn excluder_by_provides(
        &self,
        details: &Details<'_>,
        id: CandId,
        matches: &mut PackageMatches<'_>,
    ) -> Result<Option<CandId>, AllocError>
        requires choices { HasConflictsOfChoices self.now }
        requires candidate { IsUnchosenCandidate self.now id details.now }
        requires matches { AreMatchesAmong (pool_of self.now).candidates matches.old }
        // None: no choice excludes the candidate for a name that it provides.
        ensures { FindsExcluder self.now id
            ((p : Dependency) → IsIn p details.now.provides →
            p.conflict ≡ false → IsNotExcludedAt (pool_of self.now)
            (choices_of self.now) details.now
            p.name (is_some p.version))
            matches.new result }
    {
        let provides = details.provides();
        for i in 0..provides.len() {
            let found = self.excluder_of_entry(&provides.get(i), details, id, matches)?;
            match found {
                Some(excluder) => return Ok(Some(excluder)),
                None => {}
            }
        }
        Ok(None)
    }

    // A choice that excludes the candidate by the name of this entry of its provides; an entry that
    // is a conflict provides nothing.
    fn excluder_of_entry(
        &self,
        entry: &Dep<'_>,
        details: &Details<'_>,
        id: CandId,
        matches: &mut PackageMatches<'_>,
    ) -> Result<Option<CandId>, AllocError>
        requires choices { HasConflictsOfChoices self.now }
        requires candidate { IsUnchosenCandidate self.now id details.now }
        requires provided { IsIn (dependency entry.now) details.now.provides }
        requires matches { AreMatchesAmong (pool_of self.now).candidates matches.old }
        // None: no choice excludes the candidate for the name of this entry.
        ensures { FindsExcluder self.now id
            ((dependency entry.now).conflict ≡ false →
            IsNotExcludedAt (pool_of self.now) (choices_of self.now) details.now
            (dependency entry.now).name (is_some (dependency entry.now).version))
            matches.new result }
    {
        if entry.conflict {
            return Ok(None);
        }
        self.excluder_at(entry.name, entry.version.is_some(), details, id, matches)
    }

    // A choice that meets a conflict of the candidate; None if no choice meets one.
    fn excluder_by_conflicts(
        &self,
        details: &Details<'_>,
        id: CandId,
        matches: &mut PackageMatches<'_>,
    ) -> Result<Option<CandId>, AllocError>
        requires candidate { IsUnchosenCandidate self.now id details.now }
        requires matches { AreMatchesAmong (pool_of self.now).candidates matches.old }
        // None: no choice meets a conflict of the candidate.
        ensures { FindsExcluder self.now id
            ((d : Dependency) → IsIn d details.now.depends →
            d.conflict ≡ true → is_met (pool_of self.now) (choices_of self.now) (entry d) ≡ false)
            matches.new result }
    {
        let depends = details.depends();
        for i in 0..depends.len() {
            let found = self.excluder_meeting_one(&depends.get(i), i, details, id, matches)?;
            match found {
                Some(excluder) => return Ok(Some(excluder)),
                None => {}
            }
        }
        Ok(None)
    }

    // A choice that meets the candidate's dependency at an index, if the dependency is a conflict.
    fn excluder_meeting_one(
        &self,
        dep: &Dep<'_>,
        index: usize,
        details: &Details<'_>,
        id: CandId,
        matches: &mut PackageMatches<'_>,
    ) -> Result<Option<CandId>, AllocError>
        requires candidate { IsUnchosenCandidate self.now id details.now }
        // The dependency is that of the candidate at this index.
        requires depends { slice_get details.now.depends index ≡ Some (dependency dep.now) }
        requires matches { AreMatchesAmong (pool_of self.now).candidates matches.old }
        // None: the dependency is no conflict, or no choice meets it.
        ensures { FindsExcluder self.now id
            ((dependency dep.now).conflict ≡ true →
            is_met (pool_of self.now) (choices_of self.now) (entry (dependency dep.now)) ≡ false)
            matches.new result }
    {
        if !dep.conflict {
            return Ok(None);
        }
        let held = PackageDep {
            dep,
            package: id.place as usize,
            index,
        };
        choice_meeting_own(self.pool, &self.choices, &held, matches)
    }
}
