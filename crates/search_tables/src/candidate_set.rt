//! A list of candidates, each once, with a membership test in constant time. No rule of a document:
//! the choices and the reason of a dead end are such lists (`docs/selection.md`, "How the search
//! works"), and the search tests them often.
ghost use Rattle.std.specs.Prelude.{◌≡◌, ◌<◌, ◌^◌, ℕ, List, [], ◌∷◌, ◌++◌, false, length, MatchBool, OnOk, Some, vec_len, slice_index_or};
ghost use Rattle.pool_core.specs.candidate_core.Options.{IsIn};
ghost use Rattle.search_tables.specs.Reasons.{HasSameMembers};

use pool_core::CandId;
use std::alloc::{AllocError, Global};
use std::marker::Model;

/// Candidates in the order in which they were added, each once. Each place in the list of all
/// candidates has a mark, which is set if the candidate at this place is in the set.
#[derive(Drop)]
pub struct CandidateSet {
    /// The places of the candidates, in the order in which they were added.
    ids: Vec<CandId>,
    /// For each place in the list of all candidates: whether its candidate is in the set. The marks
    /// end at the greatest place that was ever in the set.
    marks: Vec<bool>,
}

impl Model for CandidateSet {
    ghost use Rattle.std.specs.Prelude.{ℕ, List};
    ghost use Rattle.search_tables.specs.CandidateSet.{AreMarksOfPlaces};

    ghost Value = { List ℕ };

    // The value is the list of the places, without the marks.
    ghost view = { λ m. m.ids.items };

    // A mark is set exactly if its place is in the list, and no place occurs twice.
    ghost invariant = { λ m. AreMarksOfPlaces m.marks.items m.ids.items };
}

impl CandidateSet {
    /// A set without candidates.
    pub fn new(alloc: Global) -> CandidateSet
        ensures { result ≡ [] }
    {
        CandidateSet {
            ids: Vec::new(alloc),
            marks: Vec::new(alloc),
        }
    }

    /// Whether the set has a candidate.
    pub fn has(&self, id: CandId) -> bool
        // True: the candidate is in the set. False: it is not.
        ensures { MatchBool result (IsIn id self.now) (IsIn id self.now → ⊥) }
    {
        let place = id.place as usize;
        if place < self.marks.len() {
            self.marks[place]
        } else {
            false
        }
    }

    /// Appends a candidate to the set, unless the set has it.
    pub fn add(&mut self, id: CandId) -> Result<(), AllocError>
        // The set has exactly its old members and this candidate.
        ensures { OnOk result (HasSameMembers self.new (self.old ++ id ∷ [])) }
    {
        if self.has(id) {
            return Ok(());
        }
        self.push(id)?;
        Ok(())
    }

    /// Appends each of these candidates that is not in the set.
    pub fn add_all(&mut self, ids: &[CandId]) -> Result<(), AllocError>
        // The set has exactly its old members and these candidates.
        ensures { OnOk result (HasSameMembers self.new (self.old ++ ids.now)) }
    {
        for id in ids {
            self.add(*id)?;
        }
        Ok(())
    }

    /// Appends a candidate that is not in the set. A call that fails changes nothing.
    pub fn push(&mut self, id: CandId) -> Result<(), AllocError>
        requires { IsIn id self.old → ⊥ }
        ensures { OnOk result (self.new ≡ self.old ++ id ∷ []) }
    {
        let place = id.place as usize;
        grow(&mut self.marks, place)?;
        self.ids.push(id)?;
        self.marks[place] = true;
        Ok(())
    }

    /// Removes all candidates. The marks keep their length, so that a set which is reused allocates
    /// none.
    pub fn clear(&mut self)
        ensures { self.new ≡ [] }
    {
        while !self.as_slice().is_empty() {
            self.pop();
        }
    }

    /// Removes the last candidate; an empty set is unchanged.
    pub fn pop(&mut self)
        // If the set is not empty, its last candidate is removed, and the others stay in their
        // order.
        ensures last { (rest : List ℕ) (last : ℕ) → self.old ≡ rest ++ last ∷ [] →
            self.new ≡ rest }
        ensures fewer { 0 < length self.old → length self.new < length self.old }
    {
        if let Some(id) = self.ids.pop() {
            let place = id.place as usize;
            // Each candidate of the set has a mark.
            if place < self.marks.len() {
                self.marks[place] = false;
            }
        }
    }

    /// The last candidate of the set; None if it is empty.
    pub fn last(&self) -> Option<CandId>
        ensures { (rest : List ℕ) (last : ℕ) → self.now ≡ rest ++ last ∷ [] →
            result ≡ Some last }
    {
        self.ids.last().copied()
    }

    /// The candidates of the set, in the order in which they were added.
    pub fn as_slice(&self) -> &[CandId]
        ensures { result.now ≡ self.now }
    {
        self.ids.as_slice()
    }
}

// Adds marks that are not set, until there is one at the place.
fn grow(marks: &mut Vec<bool>, place: usize) -> Result<(), AllocError>
    requires { place < 2 ^ 32 }
    // There is then a mark at the place, and no mark has changed; an absent mark counts as not set.
    ensures room { OnOk result (place < vec_len marks.new) }
    ensures same { (c : ℕ) → slice_index_or marks.new.items c false
        ≡ slice_index_or marks.old.items c false }
{
    while marks.len() <= place {
        marks.push(false)?;
    }
    Ok(())
}
