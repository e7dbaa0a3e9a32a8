//! Propagation, as in a SAT solver: it finds which candidates follow from the choices by one clause
//! at a time, and whether the choices contradict the clauses. It prunes the search and never
//! chooses. The rule is in `docs/selection.md`, "How the search works".
ghost use Rattle.std.specs.Prelude.{◌≡◌, IfOk};
ghost use Rattle.solve_core.specs.Clauses.{IsClause, IsClauseIfFound};
ghost use Rattle.search_choices.specs.candidate_core.Rank.{SelectionProblem};

use crate::clauses::Clause;
use crate::known::Known;
use crate::pool_rules::{add_candidate, add_world};
use crate::trail::{Literal, Status, Trail};
use crate::watches::Watches;
use search_choices::{CandId, CandidateSet};
use std::alloc::{AllocError, Global};

/// The most candidates whose rules are propagated: those nearest to world.
const MOST_CANDIDATES: usize = 16_384;

/// The most clauses that are learnt before all are forgotten.
const MOST_LEARNT: usize = 4096;

/// The most members of a learnt clause.
const MOST_MEMBERS: usize = 64;

/// The most members and options of a clause that steps follow from. Resolution of longer clauses
/// takes long, and rarely helps.
const MOST_LITERALS: usize = 512;

/// The state of propagation. No contract mentions it: the clauses and steps that it names by their
/// indexes are looked up before they are used.
#[derive(Drop)]
pub(crate) struct Propagation {
    /// The allocator.
    alloc: Global,
    /// The candidates found to be forced or ruled out by the choices, in order.
    trail: Trail,
    /// For each literal, the clauses to be tested when it becomes false.
    watches: Watches,
    /// The indexes of clauses that are to be tested before the steps of the trail: new clauses, and
    /// those with less than two literals.
    pending: Vec<usize>,
    /// How many known clauses are rules of the pool, and not learnt; None before these rules are
    /// added.
    base: Option<usize>,
}

impl Propagation {
    /// The state before the rules of the pool are added: nothing is propagated.
    pub(crate) fn new(alloc: Global) -> Propagation {
        Propagation {
            alloc,
            trail: Trail::new(alloc),
            watches: Watches::new(alloc),
            pending: Vec::new(alloc),
            base: None,
        }
    }

    /// Adds the rules of the pool to the known clauses, unless they were added before.
    pub(crate) fn begin(&mut self, known: &mut Known<'_>) -> Result<(), AllocError>
        // The pool is unchanged: `Known` is seen as its pool.
        ensures { known.new ≡ known.old }
    {
        if self.base.is_some() {
            return Ok(());
        }
        add_rules(self.alloc, known)?;
        self.watch_all(known)?;
        self.base = Some(known.len());
        Ok(())
    }

    // Lets each known clause watch two of its literals. A clause with less than two becomes
    // pending.
    fn watch_all(&mut self, known: &Known<'_>) -> Result<(), AllocError> {
        for index in 0..known.len() {
            if let Some(clause) = known.clause_at(index) {
                self.watches.push(clause, &self.trail)?;
                if clause.size() < 2 {
                    self.pending.push(index)?;
                }
            }
        }
        Ok(())
    }

    /// Learns a clause, unless it has no members or too many, or propagation has not begun. If too
    /// many clauses are learnt already, these are forgotten first. Each learnt clause is right
    /// without the others.
    pub(crate) fn learn(&mut self, clause: Clause, known: &mut Known<'_>) -> Result<(), AllocError>
        requires { IsClause known.old clause }
        // The pool is unchanged: `Known` is seen as its pool.
        ensures { known.new ≡ known.old }
    {
        let Some(base) = self.base else {
            return Ok(());
        };
        if clause.members().is_empty() || clause.members().len() > MOST_MEMBERS {
            return Ok(());
        }
        if known.len() >= base.saturating_add(MOST_LEARNT) {
            known.truncate(base);
            self.watches.truncate(base);
        }
        self.watches.push(&clause, &self.trail)?;
        self.pending.push(known.len())?;
        known.push(clause)
    }

    /// Takes all choices back but the first `level`, with the steps that followed from them.
    pub(crate) fn take_back(&mut self, level: usize, known: &mut Known<'_>)
        // The pool is unchanged: `Known` is seen as its pool.
        ensures { known.new ≡ known.old }
    {
        // `left` is the number of steps that remain.
        if let Some(left) = self.trail.take_back(level) {
            known.truncate_causes(left);
        }
    }

    /// The number of the choices that were propagated.
    pub(crate) fn level(&self) -> usize {
        self.trail.level()
    }

    /// Propagates a further choice. Returns a clause that the choices contradict, if one is found.
    pub(crate) fn choose(
        &mut self,
        choice: CandId,
        known: &mut Known<'_>,
    ) -> Result<Option<Clause>, AllocError>
        // The pool of the known clauses is unchanged; `Known` is seen as its pool.
        ensures known { known.new ≡ known.old }
        ensures conflict { IsClauseIfFound known.old result }
    {
        self.trail.begin_level()?;
        let literal = Literal {
            place: choice.place,
            is_in: true,
        };
        match self.trail.truth(literal) {
            // The choice was forced already, so it needs no step of its own.
            Some(true) => {}
            // The choice was ruled out already: the cause of that is the contradicted clause.
            Some(false) => return self.cause_against(choice, known),
            // The choice becomes a step, whose cause is a clause that always holds.
            None => {
                known.push_cause(trivial_clause(self.alloc, choice)?)?;
                self.trail.push(literal, true)?;
            }
        }
        self.propagate(known)
    }

    // A copy of the clause from which propagation drew that a candidate is ruled out; None if the
    // trail does not rule the candidate out.
    fn cause_against(&self, id: CandId, known: &Known<'_>) -> Result<Option<Clause>, AllocError>
        ensures { IsClauseIfFound known.now result }
    {
        let Some(step) = self.trail.step_out(id) else {
            return Ok(None);
        };
        let Some(cause) = known.cause_at(step) else {
            return Ok(None);
        };
        Ok(Some(cause.copy(self.alloc)?))
    }

    /// Propagates the pending clauses, and then the steps of the trail that are not yet propagated.
    /// Returns a clause that the choices contradict, if one is found.
    pub(crate) fn propagate(&mut self, known: &mut Known<'_>) -> Result<Option<Clause>, AllocError>
        // The pool of the known clauses is unchanged; `Known` is seen as its pool.
        ensures known { known.new ≡ known.old }
        ensures conflict { IsClauseIfFound known.old result }
    {
        let pending = std::mem::replace(&mut self.pending, Vec::new(self.alloc));
        if let Some(conflict) = self.derive_all(pending.as_slice(), known)? {
            return Ok(Some(conflict));
        }
        self.propagate_steps(known)
    }

    // For each clause at these indexes: appends the literal that it forces to the trail. Returns a
    // clause that the choices contradict, if one is found.
    fn derive_all(
        &mut self,
        indexes: &[usize],
        known: &mut Known<'_>,
    ) -> Result<Option<Clause>, AllocError>
        // The pool of the known clauses is unchanged; `Known` is seen as its pool.
        ensures known { known.new ≡ known.old }
        ensures conflict { IsClauseIfFound known.old result }
    {
        for index in indexes {
            if let Some(conflict) = self.derive(*index, known)? {
                return Ok(Some(conflict));
            }
        }
        Ok(None)
    }

    // Propagates the steps of the trail that are not yet propagated.
    fn propagate_steps(&mut self, known: &mut Known<'_>) -> Result<Option<Clause>, AllocError>
        // The pool of the known clauses is unchanged; `Known` is seen as its pool.
        ensures known { known.new ≡ known.old }
        ensures conflict { IsClauseIfFound known.old result }
    {
        // At most one step for each candidate: this bound lets the loop end.
        let mut left = known.pool().len();
        while left > 0 {
            left -= 1;
            let Some(literal) = self.trail.next_falsified() else {
                return Ok(None);
            };
            if let Some(conflict) = self.visit(literal, known)? {
                return Ok(Some(conflict));
            }
        }
        Ok(None)
    }

    // Tests each clause that watches this literal, which became false.
    fn visit(
        &mut self,
        literal: Literal,
        known: &mut Known<'_>,
    ) -> Result<Option<Clause>, AllocError>
        // The pool of the known clauses is unchanged; `Known` is seen as its pool.
        ensures known { known.new ≡ known.old }
        ensures conflict { IsClauseIfFound known.old result }
    {
        // The list is read from its end, since a visited clause may be removed from it.
        let mut left = self.watches.count(literal);
        while left > 0 {
            left -= 1;
            if let Some(index) = self.forcing(literal, left, known)? {
                if let Some(conflict) = self.derive(index, known)? {
                    return Ok(Some(conflict));
                }
            }
        }
        Ok(None)
    }

    // Of the clauses that watch a false literal: the index of the one at a place in their list, if
    // it may force another literal.
    fn forcing(
        &mut self,
        literal: Literal,
        place: usize,
        known: &Known<'_>,
    ) -> Result<Option<usize>, AllocError> {
        let Some(index) = self.watches.at(literal, place) else {
            return Ok(None);
        };
        let Some(clause) = known.clause_at(index) else {
            return Ok(None);
        };
        let is_forcing = self
            .watches
            .is_forcing(literal, place, index, clause, &self.trail)?;
        Ok(if is_forcing { Some(index) } else { None })
    }

    // Appends the last literal of a clause whose truth is unknown to the trail, if all others are
    // false. If all are false, the clause is returned, without the options that are ruled out.
    fn derive(&mut self, index: usize, known: &mut Known<'_>) -> Result<Option<Clause>, AllocError>
        // The pool of the known clauses is unchanged; `Known` is seen as its pool.
        ensures known { known.new ≡ known.old }
        ensures conflict { IsClauseIfFound known.old result }
    {
        let status = match known.clause_at(index) {
            Some(clause) => self.trail.status(clause),
            None => Status::Quiet,
        };
        match status {
            Status::Quiet => Ok(None),
            // The clause forces the literal, which becomes a step of the trail with its cause.
            Status::Unit(literal) => {
                if let Some(cause) = self.without_options(index, known)? {
                    known.push_cause(cause)?;
                    self.trail.push(literal, false)?;
                }
                Ok(None)
            }
            // The choices contradict the clause.
            Status::Conflict => self.without_options(index, known),
        }
    }

    // The clause at an index without the options that are ruled out, by resolution; None if the
    // clause becomes too long (`MOST_LITERALS`).
    fn without_options(&self, index: usize, known: &Known<'_>) -> Result<Option<Clause>, AllocError>
        ensures { IsClauseIfFound known.now result }
    {
        let Some(whole) = known.clause_at(index) else {
            return Ok(None);
        };
        let mut clause = whole.copy(self.alloc)?;
        for option in whole.options() {
            if clause.size() > MOST_LITERALS {
                return Ok(None);
            }
            clause = self.without_option(clause, *option, known)?;
        }
        Ok(Some(clause))
    }

    // The clause without this option, by resolution, if the trail rules the option out; otherwise
    // the clause itself.
    fn without_option(
        &self,
        clause: Clause,
        option: CandId,
        known: &Known<'_>,
    ) -> Result<Clause, AllocError>
        requires { IsClause known.now clause }
        ensures { IfOk result (λ found. IsClause known.now found) }
    {
        match self.trail.step_out(option) {
            None => Ok(clause),
            Some(step) => known.without_option(clause, step, option),
        }
    }

    /// Learns the clause that resolution derives from `conflict`, which the choices contradict,
    /// once only one member is of the latest level. Then resolves further, and returns the
    /// resulting clause. Its members are all choices, and it has no options, unless resolution
    /// ended early.
    pub(crate) fn learn_from(
        &mut self,
        conflict: Clause,
        known: &mut Known<'_>,
    ) -> Result<Clause, AllocError>
        requires { IsClause known.old conflict }
        // The pool of the known clauses is unchanged; `Known` is seen as its pool.
        ensures known { known.new ≡ known.old }
        ensures clause { IfOk result (λ clause. IsClause known.old clause) }
    {
        // `true`: until one member is of the latest level. `false`: until all members are choices.
        let learnt = self.resolved(conflict, true, known)?;
        let copy = learnt.copy(self.alloc)?;
        let of_choices = self.resolved(learnt, false, known)?;
        self.learn(copy, known)?;
        Ok(of_choices)
    }

    /// A clause of the candidate `id` and of choices, by resolution, if the trail rules the
    /// candidate out. It may have other members, too, if resolution ended early.
    pub(crate) fn clause_against(
        &self,
        id: CandId,
        known: &Known<'_>,
    ) -> Result<Option<Clause>, AllocError>
        ensures { IsClauseIfFound known.now result }
    {
        match self.cause_against(id, known)? {
            None => Ok(None),
            Some(cause) => {
                let clause = self.resolved(cause, false, known)?;
                Ok(Some(clause))
            }
        }
    }

    // A clause that follows from `clause` and has no members that were forced: each is removed by
    // resolution with its cause, the latest first. Resolution ends early once the clause is too
    // long, or, if `until_alone`, once the latest level has one member.
    fn resolved(
        &self,
        clause: Clause,
        until_alone: bool,
        known: &Known<'_>,
    ) -> Result<Clause, AllocError>
        requires { IsClause known.now clause }
        ensures { IfOk result (λ found. IsClause known.now found) }
    {
        let mut clause = clause;
        // At most one round for each candidate: this bound lets the loop end.
        let mut left = known.pool().len();
        while left > 0 {
            left -= 1;
            if clause.size() > MOST_LITERALS {
                return Ok(clause);
            }
            if until_alone && self.trail.is_last_alone(clause.members()) {
                return Ok(clause);
            }
            let Some(step) = self.trail.latest_forced(clause.members()) else {
                return Ok(clause);
            };
            let Some(member) = self.trail.candidate_at(step) else {
                return Ok(clause);
            };
            clause = known.without_member(clause, step, member)?;
        }
        Ok(clause)
    }
}

// Adds the rules of world, and of the candidates that are nearest to world, to the known clauses.
fn add_rules(alloc: Global, known: &mut Known<'_>) -> Result<(), AllocError>
    ensures { known.new ≡ known.old }
{
    // The candidates found so far: the options for world first, then the options for these, and so
    // on.
    let mut reached = CandidateSet::new(alloc);
    add_world(alloc, known, &mut reached)?;
    for i in 0..MOST_CANDIDATES {
        let Some(id) = reached.as_slice().get(i).copied() else {
            return Ok(());
        };
        if !known.has_room() {
            return Ok(());
        }
        add_candidate(alloc, known, id, &mut reached)?;
    }
    Ok(())
}

// A clause that always holds: a selection that has a candidate has this candidate. It is the cause
// of a step that is a choice.
fn trivial_clause(alloc: Global, id: CandId) -> Result<Clause, AllocError>
    ensures { (pool : SelectionProblem) → IfOk result (λ clause. IsClause pool clause) }
{
    let members = Vec::from_slice(alloc, &[id])?;
    let options = Vec::from_slice(alloc, &[id])?;
    Ok(Clause::new(members, options))
}
