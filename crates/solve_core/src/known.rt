//! The clauses that the search knows about its pool: those of the pool's rules, those that were
//! learnt from conflicts, and for each step of propagation the clause that it follows from. The
//! rule is in `docs/selection.md`, "How the search works".
ghost use Rattle.std.specs.Prelude.{◌≡◌, IfOk, IfSome, Some, slice_get};
ghost use Rattle.solve_core.specs.Clauses.{IsClause};

use crate::clauses::{Clause, resolvent};
use dep_core::World;
use search_choices::{CandId, Sealed};
use std::alloc::{AllocError, Global};
use std::marker::Model;

/// The number of clauses from which on no further rules are made clauses.
const MOST_RULES: usize = 262_144;

/// The clauses of one pool that the search knows. In contracts this value stands for the pool:
/// contracts do not say which clauses there are, only that each is a clause of this pool.
#[derive(Drop)]
pub(crate) struct Known<'p> {
    /// The allocator.
    alloc: Global,
    /// The pool: the candidates, and the world that they were sealed with.
    pool: &'p Sealed<'p>,
    /// The world that the pool was sealed with.
    world: &'p World,
    /// The clauses of the pool's rules, then those that were learnt.
    clauses: Vec<Clause>,
    /// For each step of the trail, by its index: the clause from which propagation drew the step.
    causes: Vec<Clause>,
}

impl<'p> Model for Known<'p> {
    ghost use Rattle.std.specs.Coded.{codes};
    ghost use Rattle.std.specs.Prelude.{◌≡◌};
    ghost use Rattle.search_choices.specs.candidate_core.PlainCode.{plain_code};
    ghost use Rattle.search_choices.specs.candidate_core.Rank.{SelectionProblem};
    ghost use Rattle.solve_core.specs.Clauses.{AreClauses};

    ghost Value = { SelectionProblem };

    // Pools with equal codes are equal (`Coded`).
    ghost coded = { Prim.hlevel (codes, plain_code) };

    // The value is the pool alone.
    ghost view = { λ known. known.pool.now };

    // The world is that of the pool, and each clause and each cause is a clause of the pool.
    ghost invariant = { λ known. (known.world.now ≡ known.pool.now.world)
        × AreClauses known.pool.now known.clauses.items
        × AreClauses known.pool.now known.causes.items };
}

impl<'p> Known<'p> {
    /// The known clauses of this pool, when none is known yet.
    pub(crate) fn new(alloc: Global, pool: &'p Sealed<'p>, world: &'p World) -> Known<'p>
        requires { world.now ≡ pool.now.world }
        ensures { result ≡ pool.entry.now }
    {
        Known {
            alloc,
            pool,
            world,
            clauses: Vec::new(alloc),
            causes: Vec::new(alloc),
        }
    }

    /// The pool: the candidates, and the world that they were sealed with.
    pub(crate) fn pool(&self) -> &'p Sealed<'p>
        ensures { result.now ≡ self.now }
    {
        self.pool
    }

    /// The world that the pool was sealed with.
    pub(crate) fn world(&self) -> &'p World
        ensures { result.now ≡ self.now.world }
    {
        self.world
    }

    /// How many clauses there are, without the causes of steps.
    pub(crate) fn len(&self) -> usize {
        self.clauses.len()
    }

    /// Whether further rules may be made clauses.
    pub(crate) fn has_room(&self) -> bool {
        self.clauses.len() < MOST_RULES
    }

    /// Adds a clause, whose index is the number of those before it.
    pub(crate) fn push(&mut self, clause: Clause) -> Result<(), AllocError>
        requires { IsClause self.old clause }
        // The pool is unchanged: `Known` is seen as its pool.
        ensures { self.new ≡ self.old }
    {
        self.clauses.push(clause)?;
        Ok(())
    }

    /// Forgets all clauses but the first `len`.
    pub(crate) fn truncate(&mut self, len: usize)
        // The pool is unchanged: `Known` is seen as its pool.
        ensures { self.new ≡ self.old }
    {
        self.clauses.truncate(len);
    }

    /// The clause at an index, if there is one.
    pub(crate) fn clause_at(&self, index: usize) -> Option<&Clause>
        ensures { IfSome result (λ clause. IsClause self.now clause.now) }
    {
        let clause = clause_in(self.clauses.as_slice(), index)?;
        Some(clause)
    }

    /// Adds the cause of the next step of the trail: the clause from which propagation draws the
    /// step.
    pub(crate) fn push_cause(&mut self, clause: Clause) -> Result<(), AllocError>
        requires { IsClause self.old clause }
        // The pool is unchanged: `Known` is seen as its pool.
        ensures { self.new ≡ self.old }
    {
        self.causes.push(clause)?;
        Ok(())
    }

    /// Forgets all causes but those of the first `len` steps.
    pub(crate) fn truncate_causes(&mut self, len: usize)
        // The pool is unchanged: `Known` is seen as its pool.
        ensures { self.new ≡ self.old }
    {
        self.causes.truncate(len);
    }

    /// The cause of the step of the trail at an index, counted from 0; None if there is no such
    /// step.
    pub(crate) fn cause_at(&self, step: usize) -> Option<&Clause>
        ensures { IfSome result (λ clause. IsClause self.now clause.now) }
    {
        let clause = clause_in(self.causes.as_slice(), step)?;
        Some(clause)
    }

    /// The clause without one of its options: its resolvent with the cause of the step that rules
    /// the option out. If there is no such step, the clause itself.
    pub(crate) fn without_option(
        &self,
        clause: Clause,
        step: usize,
        option: CandId,
    ) -> Result<Clause, AllocError>
        requires { IsClause self.now clause }
        ensures { IfOk result (λ found. IsClause self.now found) }
    {
        let Some(cause) = self.cause_at(step) else {
            return Ok(clause);
        };
        let found = resolvent(self.alloc, &clause, cause, option)?;
        Ok(found)
    }

    /// The clause without one of its members: its resolvent with the cause of the step that forces
    /// the member. If there is no such step, the clause itself.
    pub(crate) fn without_member(
        &self,
        clause: Clause,
        step: usize,
        member: CandId,
    ) -> Result<Clause, AllocError>
        requires { IsClause self.now clause }
        ensures { IfOk result (λ found. IsClause self.now found) }
    {
        let Some(cause) = self.cause_at(step) else {
            return Ok(clause);
        };
        let found = resolvent(self.alloc, cause, &clause, member)?;
        Ok(found)
    }
}

// The clause at an index of a list, if there is one.
fn clause_in(clauses: &[Clause], index: usize) -> Option<&Clause>
    ensures { IfSome result (λ clause. slice_get clauses.now index ≡ Some clause.now) }
{
    if index < clauses.len() {
        Some(&clauses[index])
    } else {
        None
    }
}
