//! The search: it takes options, rules options out, and backtracks at a dead end. The rule is in
//! `docs/selection.md`, "How the search works".
ghost use Rattle.std.specs.Prelude.{◌≡◌, ◌<◌, ◌^◌, ℕ, [], ◌∷◌, ◌++◌, false, true, length, IfOk, OnOk, IfSome, MatchOption, None};
ghost use Rattle.search_choices.specs.candidate_core.Options.{IsIn};
ghost use Rattle.search_choices.specs.search_tables.Selection.{AreAllMembersOf, exclude_each_other, next_need};
ghost use Rattle.search_choices.specs.search_tables.Reasons.{FrameValue, IsReason, HasSameMembers, IsRuledOutBy, IsFrameOf, IsExhaustedFrame, dead_end_reason};
ghost use Rattle.solve_core.specs.Clauses.{IsClauseIfFound};
ghost use Rattle.solve_core.specs.Measure.{search_measure};
ghost use Rattle.solve_core.specs.Underway.{CanJoin, IsDeadEnd, IsUnderway};
ghost use Rattle.search_choices.specs.Choices.{choices_of, pool_of};

use crate::clauses::{Clause, are_choices, are_others_choices, without};
use crate::known::Known;
use crate::propagation::Propagation;
use crate::selection::options_are_as_promised;
use crate::turns::{Hint, Turn, reopened_frame, rule_out, turn_at};
use dep_core::World;
use search_choices::{CandId, CandidateSet, Choices, Frame, PackageMatches, Sealed, Trace};
use std::alloc::{AllocError, Global};

/// The number of dead ends after which propagation begins. Most searches have fewer.
const DEAD_ENDS_BEFORE: usize = 32;

/// A search under way, with the set in which the reason of each dead end is made.
pub(crate) struct Search<'p> {
    /// The allocator.
    alloc: Global,
    /// The choices so far, and the needs that they raise.
    chosen: Choices<'p>,
    /// The turns so far, one for each choice.
    turns: Vec<Turn>,
    /// For each candidate, by its place in the list of candidates: where it was ruled out last. The
    /// list ends at the greatest such place.
    hints: Vec<Option<Hint>>,
    /// The members of the reason of the latest dead end; the set is reused for the next one.
    reason: CandidateSet,
    /// Remembered results of comparisons: which long versions the dependencies of candidates
    /// accept.
    matches: PackageMatches<'p>,
    /// The number of dead ends so far; propagation begins after `DEAD_ENDS_BEFORE` of them.
    dead_ends: usize,
    /// The clauses that are known, for propagation.
    known: Known<'p>,
    /// The state of propagation.
    propagation: Propagation,
}

/// Drops the parts in one call, so that a function that gives up has one drop and not many.
impl Drop for Search<'_> {
    fn drop(self) {
        let Search {
            alloc: _,
            chosen: _,
            turns: _,
            hints: _,
            reason: _,
            matches: _,
            dead_ends: _,
            known: _,
            propagation: _,
        } = self;
    }
}

impl<'p> Search<'p> {
    /// A search without choices, under the world that the pool was sealed with.
    pub(crate) fn new(
        alloc: Global,
        pool: &'p Sealed<'p>,
        world: &'p World,
    ) -> Result<Search<'p>, AllocError>
        requires { world.now ≡ pool.now.world }
        ensures underway { IfOk result (λ search. IsUnderway search) }
        ensures pool { IfOk result (λ search. pool_of search.chosen ≡ pool.entry.now) }
    {
        let chosen = Choices::new(alloc, pool, world)?;
        let matches = PackageMatches::new(alloc, pool.packages());
        Ok(Search {
            alloc,
            chosen,
            turns: Vec::new(alloc),
            hints: Vec::new(alloc),
            reason: CandidateSet::new(alloc),
            matches,
            dead_ends: 0,
            known: Known::new(alloc, pool, world),
            propagation: Propagation::new(alloc),
        })
    }

    /// The frame of the first need that no choice meets; None if each need is met.
    pub(crate) fn next_frame(&mut self) -> Result<Option<Frame>, AllocError>
        requires { IsUnderway self.old }
        ensures underway { OnOk result (IsUnderway self.new) }
        ensures pool { pool_of self.new.chosen ≡ pool_of self.old.chosen }
        ensures turns { self.new.turns.items ≡ self.old.turns.items }
        // The new frame has fewer than 2^64 options left, so that their number is a digit of the
        // measure of the search (*base* of `Measure`).
        ensures few { IfOk result (λ found. IfSome found (λ frame. length frame.1 < 2 ^ 64)) }
        // None: no need is left. Otherwise: the frame of the next need.
        ensures frame { IfOk result (λ found. MatchOption found (next_need
            (pool_of self.new.chosen) (choices_of self.new.chosen)
            ≡ None) (λ frame. IsFrameOf (pool_of self.new.chosen)
            (choices_of self.new.chosen) frame)) }
    {
        let found = self.chosen.next_frame(&mut self.matches)?;
        Ok(found)
    }

    /// The choices, in the order chosen, as the result of the search.
    pub(crate) fn trace(&self, alloc: Global) -> Result<Trace, AllocError>
        ensures { IfOk result (λ trace. trace ≡ choices_of self.now.chosen) }
    {
        let trace = self.chosen.trace(alloc)?;
        Ok(trace)
    }

    /// Makes the next choice, an option of the frame `top`. At a dead end the search steps back to
    /// an earlier frame first, and takes another option of it. False if no frame is left, so that
    /// no selection satisfies world.
    pub(crate) fn choose_next(&mut self, top: Frame) -> Result<bool, AllocError>
        requires underway { IsUnderway self.old }
        // The frame is that of the next need.
        requires open_now { IsFrameOf (pool_of self.old.chosen) (choices_of self.old.chosen) top }
        ensures pool { pool_of self.new.chosen ≡ pool_of self.old.chosen }
        ensures underway { IfOk result (λ is_chosen. is_chosen ≡ true → IsUnderway self.new) }
        // The measure falls, whatever the frame of the next need is then: so the search ends.
        ensures lighter { IfOk result (λ is_chosen. is_chosen ≡ true → (frame : FrameValue) →
            length frame.1 < 2 ^ 64 → search_measure self.new.turns.items frame
            < search_measure self.old.turns.items top) }
        // False: the empty list is a reason, so no selection satisfies world.
        ensures dead { IfOk result (λ is_chosen. is_chosen ≡ false →
            IsReason (pool_of self.old.chosen) []) }
    {
        let mut top = top;
        loop {
            match self.take_option(&mut top)? {
                Some(id) => {
                    self.choose(top, id)?;
                    return Ok(true);
                }
                None => {
                    let Some(frame) = self.step_back()? else {
                        return Ok(false);
                    };
                    top = frame;
                }
            }
        }
    }

    // Takes an option that can join the choices from the frame of the next need. None at a dead
    // end, whose reason is then the stored one. Dead ends ahead are looked for first.
    fn take_option(&mut self, top: &mut Frame) -> Result<Option<CandId>, AllocError>
        requires underway { IsUnderway self.old }
        requires open_now { IsFrameOf (pool_of self.old.chosen)
            (choices_of self.old.chosen) top.old }
        ensures underway { OnOk result (IsUnderway self.new) }
        ensures chosen { self.new.chosen ≡ self.old.chosen }
        ensures turns { self.new.turns.items ≡ self.old.turns.items }
        ensures found { IfOk result (λ found. MatchOption found
            (IsDeadEnd self.old.chosen self.new.reason)
            (λ id. CanJoin self.old.chosen top.new id × (length top.new.1 < length top.old.1))) }
    {
        if self.is_dead_ahead()? {
            return Ok(None);
        }
        if let Some(id) = self.next_option(top)? {
            return Ok(Some(id));
        }
        self.learn_dead_end(top)?;
        Ok(None)
    }

    // Takes options of a frame and rules them out, until one is compatible with all choices, which
    // is returned; None if no option is left.
    fn next_option(&mut self, top: &mut Frame) -> Result<Option<CandId>, AllocError>
        requires underway { IsUnderway self.old }
        // The frame is that of the next need.
        requires open_now { IsFrameOf (pool_of self.old.chosen)
            (choices_of self.old.chosen) top.old }
        ensures underway { OnOk result (IsUnderway self.new) }
        ensures chosen { self.new.chosen ≡ self.old.chosen }
        ensures turns { self.new.turns.items ≡ self.old.turns.items }
        // None: no option of the frame is left. Otherwise the option was taken from the frame, and
        // can join the choices.
        ensures found { IfOk result (λ found. MatchOption found (IsExhaustedFrame
            (pool_of self.old.chosen) (choices_of self.old.chosen) top.new)
            (λ id. CanJoin self.old.chosen top.new id × (length top.new.1 < length top.old.1))) }
    {
        // A law that the proof needs; it has no effect at run time.
        options_are_as_promised();
        while let Some(id) = top.take_next() {
            match self.reason_against(id)? {
                None => return Ok(Some(id)),
                Some(others) => rule_out(&mut self.hints, self.turns.len(), top, id, others)?,
            }
        }
        Ok(None)
    }

    // The reason against an option that is not yet a choice, if there is one. (A choice would
    // exclude itself by the names that it occupies.) Results for long versions are remembered.
    fn reason_against(&mut self, id: CandId) -> Result<Option<Vec<CandId>>, AllocError>
        requires underway { IsUnderway self.old }
        requires within { id < length (pool_of self.old.chosen).candidates }
        // The option is no choice yet.
        requires once { IsIn id (choices_of self.old.chosen) → ⊥ }
        ensures underway { OnOk result (IsUnderway self.new) }
        ensures chosen { self.new.chosen ≡ self.old.chosen }
        ensures turns { self.new.turns.items ≡ self.old.turns.items }
        // None: the option and no choice exclude each other. Otherwise: choices that together rule
        // it out.
        ensures found { IfOk result (λ found. MatchOption found ((other : ℕ) →
            IsIn other (choices_of self.old.chosen) →
            exclude_each_other (pool_of self.old.chosen) other id ≡ false)
            (λ others. IsRuledOutBy (pool_of self.old.chosen) (choices_of self.old.chosen) id
            others.items)) }
    {
        // Three sources of a reason are tried, the cheapest first: an earlier turn, propagation,
        // and a choice that excludes the option.
        if let Some(others) = self.reason_found_before(id)? {
            return Ok(Some(others));
        }
        let Some(excluder) = self.chosen.excluder(id, &mut self.matches)? else {
            return Ok(None);
        };
        let others = Vec::from_slice(self.alloc, &[excluder])?;
        Ok(Some(others))
    }

    // The other members of the reason with which an earlier turn or else propagation rules an
    // option out, if one does.
    fn reason_found_before(&self, id: CandId) -> Result<Option<Vec<CandId>>, AllocError>
        requires { IsUnderway self.now }
        ensures { IfOk result (λ found. IfSome found (λ others. IsRuledOutBy
            (pool_of self.now.chosen)
            (choices_of self.now.chosen) id others.items)) }
    {
        let Some(others) = self.ruled_out_with(id) else {
            return self.propagated_against(id);
        };
        let others = Vec::from_slice(self.alloc, others)?;
        Ok(Some(others))
    }

    // The other members of the reason with which an option is ruled out at an earlier turn. As long
    // as that turn exists, they rule the option out here too. The hint may be stale, so its option
    // is compared with this one.
    fn ruled_out_with(&self, id: CandId) -> Option<&[CandId]>
        requires { IsUnderway self.now }
        ensures { IfSome result (λ others. IsRuledOutBy (pool_of self.now.chosen)
            (choices_of self.now.chosen) id others.now) }
    {
        let hint = (*self.hints.get(id.place as usize)?)?;
        let turn = turn_at(self.turns.as_slice(), hint.turn)?;
        let ruled_out = turn.ruled_out_at(hint.place)?;
        if ruled_out.option() != id {
            return None;
        }
        Some(ruled_out.others())
    }

    // The other members, all of them choices, of a reason with which propagation rules an option
    // out; None if propagation does not rule the option out.
    fn propagated_against(&self, id: CandId) -> Result<Option<Vec<CandId>>, AllocError>
        requires { IsUnderway self.now }
        ensures { IfOk result (λ found. IfSome found (λ others. IsRuledOutBy
            (pool_of self.now.chosen)
            (choices_of self.now.chosen) id others.items)) }
    {
        let Some(clause) = self.propagation.clause_against(id, &self.known)? else {
            return Ok(None);
        };
        // Only a clause without options rules the option out.
        if !clause.is_reason() {
            return Ok(None);
        }
        if are_others_choices(clause.members(), id, &self.chosen) {
            let others = without(self.alloc, clause.members(), id)?;
            return Ok(Some(others));
        }
        Ok(None)
    }

    // Makes an option the next choice, and stores its frame as a turn. After an error the search
    // may only be dropped.
    fn choose(&mut self, frame: Frame, choice: CandId) -> Result<(), AllocError>
        requires underway { IsUnderway self.old }
        // The choice was just taken from the frame of the next need, and can join the choices.
        requires choice { CanJoin self.old.chosen frame choice }
        ensures underway { OnOk result (IsUnderway self.new) }
        ensures pool { pool_of self.new.chosen ≡ pool_of self.old.chosen }
        // The frame and the choice become the last turn.
        ensures turns { OnOk result (self.new.turns.items ≡ self.old.turns.items
            ++ (frame, choice) ∷ []) }
    {
        self.chosen.push(choice)?;
        self.turns.push(Turn::new(frame, choice))?;
        Ok(())
    }

    // Whether propagation finds that no satisfying selection has all the choices. If so, the
    // stored reason has only choices as members. Propagation is tried only after many dead ends
    // (`DEAD_ENDS_BEFORE`), since most searches have few.
    fn is_dead_ahead(&mut self) -> Result<bool, AllocError>
        requires { IsUnderway self.old }
        ensures underway { OnOk result (IsUnderway self.new) }
        ensures chosen { self.new.chosen ≡ self.old.chosen }
        ensures turns { self.new.turns.items ≡ self.old.turns.items }
        // If the result is true, the members of the stored reason are choices, and no satisfying
        // selection has them all.
        ensures dead { IfOk result (λ is_dead. is_dead ≡ true →
            IsDeadEnd self.old.chosen self.new.reason) }
    {
        if self.dead_ends < DEAD_ENDS_BEFORE {
            return Ok(false);
        }
        let Some(clause) = conflict_ahead(
            self.turns.as_slice(),
            &mut self.propagation,
            &mut self.known,
        )?
        else {
            return Ok(false);
        };
        // The clause may have other members or options, if resolution ended early.
        if !is_reason_of_choices(&clause, &self.chosen) {
            return Ok(false);
        }
        replace_members(&mut self.reason, clause.members())?;
        Ok(true)
    }

    // Stores the reason of a dead end, at which no option of the frame is left. Propagation learns
    // the reason as a clause without options.
    fn learn_dead_end(&mut self, spent: &Frame) -> Result<(), AllocError>
        requires underway { IsUnderway self.old }
        // The frame is that of the next need, and has no option left.
        requires spent { IsExhaustedFrame (pool_of self.old.chosen) (choices_of self.old.chosen)
            spent.now }
        ensures underway { OnOk result (IsUnderway self.new) }
        ensures chosen { self.new.chosen ≡ self.old.chosen }
        ensures turns { self.new.turns.items ≡ self.old.turns.items }
        ensures dead { OnOk result (IsDeadEnd self.old.chosen self.new.reason) }
    {
        // A law that the proof needs; it has no effect at run time.
        options_are_as_promised();
        store_reason(&mut self.reason, spent)?;
        self.dead_ends = self.dead_ends.saturating_add(1);
        let learnt = Clause::reason(self.alloc, self.reason.as_slice())?;
        self.propagation.learn(learnt, &mut self.known)?;
        Ok(())
    }

    // Backtracks to the latest choice in the stored reason, and rules that choice out with the rest
    // of the reason. The turns above it are dropped. Returns the choice's frame; None if the reason
    // has no choice, so that no selection satisfies world.
    fn step_back(&mut self) -> Result<Option<Frame>, AllocError>
        requires underway { IsUnderway self.old }
        requires dead { IsDeadEnd self.old.chosen self.old.reason }
        ensures pool { pool_of self.new.chosen ≡ pool_of self.old.chosen }
        // None: the empty list is a reason, so no selection satisfies world. Otherwise the frame is
        // that of the next need after the choices that remain.
        ensures found { IfOk result (λ found. MatchOption found (IsReason
            (pool_of self.old.chosen) [])
            (λ frame. IsUnderway self.new
            × IsFrameOf (pool_of self.new.chosen) (choices_of self.new.chosen) frame)) }
        // The measure falls, whatever the topmost frame `spent` was before the call.
        ensures lighter { (spent : FrameValue) → IfOk result (λ found. IfSome found
            (λ frame. search_measure self.new.turns.items frame < search_measure self.old.turns.items
            spent)) }
    {
        while let Some(turn) = self.turns.pop() {
            // Each turn belongs to one choice: the turn and its choice are both removed.
            self.chosen.pop();
            // This is the latest choice of the reason: the other members of the reason rule it out.
            if self.reason.has(turn.choice()) {
                self.propagation
                    .take_back(self.turns.len(), &mut self.known);
                let frame = reopened_frame(
                    self.alloc,
                    &mut self.hints,
                    self.turns.len(),
                    turn,
                    &self.reason,
                )?;
                return Ok(Some(frame));
            }
        }
        Ok(None)
    }
}

// Propagates the choices of the turns that are not propagated yet. Returns a clause that the
// choices contradict, if one is found. Its members are all choices, and it has no options, unless
// resolution ended early.
fn conflict_ahead(
    turns: &[Turn],
    propagation: &mut Propagation,
    known: &mut Known<'_>,
) -> Result<Option<Clause>, AllocError>
    // The pool is unchanged: `Known` is seen as its pool.
    ensures known { known.new ≡ known.old }
    ensures conflict { IsClauseIfFound known.old result }
{
    propagation.begin(known)?;
    match propagate_turns(turns, propagation, known)? {
        None => Ok(None),
        Some(conflict) => {
            let clause = propagation.learn_from(conflict, known)?;
            Ok(Some(clause))
        }
    }
}

// Propagates the choices of the turns that are not propagated yet, in their order. Returns a clause
// that the choices contradict, if one is found.
fn propagate_turns(
    turns: &[Turn],
    propagation: &mut Propagation,
    known: &mut Known<'_>,
) -> Result<Option<Clause>, AllocError>
    // The pool is unchanged: `Known` is seen as its pool.
    ensures known { known.new ≡ known.old }
    ensures conflict { IsClauseIfFound known.old result }
{
    if let Some(conflict) = propagation.propagate(known)? {
        return Ok(Some(conflict));
    }
    for i in propagation.level()..turns.len() {
        if let Some(conflict) = propagation.choose(turns[i].choice(), known)? {
            return Ok(Some(conflict));
        }
    }
    Ok(None)
}

// Stores the reason of a dead end in the set `members`: the choices that raised the need (`by`),
// and the other members of the reasons of its options.
fn store_reason(members: &mut CandidateSet, spent: &Frame) -> Result<(), AllocError>
    ensures { OnOk result (HasSameMembers members.new (dead_end_reason spent.now)) }
{
    replace_members(members, spent.by())?;
    for ruled_out in spent.ruled_out() {
        members.add_all(ruled_out.others())?;
    }
    Ok(())
}

// Replaces the members of the set by the candidates `ids`.
fn replace_members(members: &mut CandidateSet, ids: &[CandId]) -> Result<(), AllocError>
    ensures { OnOk result (HasSameMembers members.new ids.now) }
{
    members.clear();
    members.add_all(ids)
}

// Whether a clause is a reason whose members are choices.
fn is_reason_of_choices(clause: &Clause, chosen: &Choices<'_>) -> bool
    // A reason is a clause without options.
    ensures reason { result ≡ true → clause.now.1 ≡ [] }
    ensures choices { result ≡ true → AreAllMembersOf clause.now.0 (choices_of chosen.now) }
{
    if !clause.is_reason() {
        return false;
    }
    are_choices(clause.members(), chosen)
}
