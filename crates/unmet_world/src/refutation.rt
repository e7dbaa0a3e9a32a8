//! Refutations of a world: steps from which it follows that no selection satisfies the world, and
//! the check that they do. The rules of a satisfying selection are in `docs/selection.md`, "What
//! satisfies world". How the steps were found does not matter here.
ghost use Rattle.std.specs.Prelude.{◌≡◌, ◌<◌, ◌∷◌, ◌++◌, [], length, Some, true, OnOk, IfOk, option_map, option_to_list, slice_get};
ghost use Rattle.dep_core.specs.Meets.{dependency};
ghost use Rattle.search_tables.specs.candidate_core.Options.{IsIn};
ghost use Rattle.search_tables.specs.Selection.{AreAllMembersOf, depends_at};
ghost use Rattle.unmet_world.specs.Refutation.{IsDerivationStep, IsMetOnlyBy, IsRefutation, IsSureOwner, if_positive, ids_made_sure_by_step, dependencies_of_owner, ids_ruled_out_by_step, wanted};

use crate::exclusion::exclude_each_other;
use dep_core::{Dep, World};
use search_tables::{CandId, CandidateSet, Deps, NeedRef, Options, Sealed};
use std::alloc::{AllocError, Global};

/// The owner of a dependency.
#[derive(Clone, Copy)]
pub enum Owner {
    /// World, whose entries are its dependencies.
    World,
    /// The candidate at this place in the pool.
    Package(u32),
}

/// A dependency of an owner that is to be met.
#[derive(Clone, Copy)]
pub struct Want {
    /// Who has the dependency.
    pub owner: Owner,
    /// The index of the dependency among those of the owner, counted from 0.
    pub index: usize,
}

/// A step of a refutation. `id` and `by` are the places of candidates in the pool.
#[derive(Clone, Copy)]
pub enum Step {
    /// A candidate is ruled out: all candidates that meet its dependency with this index are ruled
    /// out.
    Broken { id: u32, index: usize },
    /// A candidate is ruled out: it and the sure candidate `by` exclude each other.
    Excluded { id: u32, by: u32 },
    /// A candidate is sure: all others that meet this dependency of a sure owner are ruled out.
    Sure { id: u32, want: Want },
}

/// The candidate at a place of the pool, as a `CandId`.
pub(crate) fn candidate(place: u32) -> CandId
    ensures { result ≡ place }
{
    CandId { place }
}

/// Why no selection satisfies a world.
#[derive(Drop)]
pub struct Refutation {
    /// The steps, of which each follows from those after it in the list.
    pub steps: Vec<Step>,
    /// The dependency of a sure owner that only candidates meet which the steps rule out.
    pub end: Want,
}

/// The candidates that are ruled out, and those that are sure, by the steps that were checked.
struct Checked {
    /// The candidates that are ruled out.
    out: CandidateSet,
    /// The candidates that are sure.
    sure: CandidateSet,
}

/// Drops the parts in one call, so that a function that gives up has one drop and not many.
impl Drop for Checked {
    fn drop(self) {
        let Checked { out: _, sure: _ } = self;
    }
}

impl Checked {
    // Whether an owner is sure: world, or a candidate that a checked step makes sure.
    fn is_sure(&self, owner: Owner) -> bool
        ensures { result ≡ true → IsSureOwner self.now.sure owner }
    {
        match owner {
            Owner::World => true,
            Owner::Package(id) => self.sure.has(candidate(id)),
        }
    }

    // Whether a step follows from the steps that were checked.
    fn follows(
        &self,
        alloc: Global,
        pool: &Sealed<'_>,
        world: &World,
        step: Step,
    ) -> Result<bool, AllocError>
        // The world is the one with which the pool was sealed.
        requires { world.now ≡ pool.now.world }
        ensures { IfOk result (λ follows. follows ≡ true →
            IsDerivationStep pool.now self.now.out self.now.sure step) }
    {
        match step {
            Step::Broken { id, index } => {
                let owner = Owner::Package(id);
                // All that meet this dependency of the candidate must be ruled out.
                is_met_only_by(alloc, pool, world, Want { owner, index }, &None, &self.out)
            }
            Step::Excluded { id, by } => {
                // The candidate that excludes it must be sure.
                if !self.sure.has(candidate(by)) {
                    return Ok(false);
                }
                Ok(exclude_each_other(pool, candidate(by), candidate(id)))
            }
            Step::Sure { id, want } => {
                // Each satisfying selection must meet the dependency, and all other options be
                // ruled out.
                if !self.is_sure(want.owner) {
                    return Ok(false);
                }
                is_met_only_by(alloc, pool, world, want, &Some(candidate(id)), &self.out)
            }
        }
    }

    // Adds the candidate that a step rules out or makes sure.
    fn add(&mut self, step: Step) -> Result<(), AllocError>
        ensures out { OnOk result (AreAllMembersOf self.new.out (ids_ruled_out_by_step step
            ++ self.old.out)) }
        ensures sure { OnOk result (AreAllMembersOf self.new.sure (ids_made_sure_by_step step
            ++ self.old.sure)) }
    {
        match step {
            Step::Broken { id, index: _ } => self.out.add(candidate(id)),
            Step::Excluded { id, by: _ } => self.out.add(candidate(id)),
            Step::Sure { id, want: _ } => self.sure.add(candidate(id)),
        }
    }
}

/// Whether a refutation is valid: each step follows from those after it, and the end from all
/// steps. The steps are checked from the last in the list to the first.
pub fn is_refutation(
    alloc: Global,
    pool: &Sealed<'_>,
    world: &World,
    refutation: &Refutation,
) -> Result<bool, AllocError>
    // The world is the one with which the pool was sealed.
    requires { world.now ≡ pool.now.world }
    ensures { IfOk result (λ is. is ≡ true → IsRefutation pool.now refutation.now) }
{
    let mut checked = Checked {
        out: CandidateSet::new(alloc),
        sure: CandidateSet::new(alloc),
    };
    let mut left = refutation.steps.len();
    // From the last step in the list to the first: each must follow from those checked so far.
    while left > 0 {
        left -= 1;
        let step = step_at(refutation, left);
        if !checked.follows(alloc, pool, world, step)? {
            return Ok(false);
        }
        checked.add(step)?;
    }
    // The end must be a dependency of a sure owner that only ruled-out candidates meet.
    let end = refutation.end;
    if !checked.is_sure(end.owner) {
        return Ok(false);
    }
    is_met_only_by(alloc, pool, world, end, &None, &checked.out)
}

// The step of a refutation at an index.
fn step_at(refutation: &Refutation, index: usize) -> Step
    requires { index < length refutation.now.steps.items }
    ensures { slice_get refutation.now.steps.items index ≡ Some result }
{
    refutation.steps[index]
}

// Whether each candidate that may be selected and meets the wanted dependency is ruled out (in
// `out`), or is the candidate `kept`. False if there is no such dependency.
fn is_met_only_by(
    alloc: Global,
    pool: &Sealed<'_>,
    world: &World,
    want: Want,
    kept: &Option<CandId>,
    out: &CandidateSet,
) -> Result<bool, AllocError>
    // The world is the one with which the pool was sealed.
    requires { world.now ≡ pool.now.world }
    ensures { IfOk result (λ is. is ≡ true →
        IsMetOnlyBy pool.now want (option_to_list kept.now ++ out.now)) }
{
    let Some(dep) = wanted(pool, world, want) else {
        return Ok(false);
    };
    let options = pool.options_for(alloc, &NeedRef::Entry(&dep))?;
    Ok(are_left(&options, kept, out))
}

// Whether each of these options is ruled out (in `out`), or is the candidate `kept`.
fn are_left(options: &Options, kept: &Option<CandId>, out: &CandidateSet) -> bool
    ensures { result ≡ true → AreAllMembersOf options.now (option_to_list kept.now ++ out.now) }
{
    for i in 0..options.len() {
        if !is_left(options.get(i), kept, out) {
            return false;
        }
    }
    true
}

// Whether the candidate `id` is ruled out (in `out`), or is the candidate `kept`, if there is one.
fn is_left(id: CandId, kept: &Option<CandId>, out: &CandidateSet) -> bool
    ensures { result ≡ true → IsIn id (option_to_list kept.now ++ out.now) }
{
    match kept {
        Some(kept) if *kept == id => true,
        _ => out.has(id),
    }
}

/// The dependency that an owner wants to be met; None if the owner has none at the index, or the
/// dependency is a conflict.
pub fn wanted<'a>(pool: &Sealed<'a>, world: &'a World, want: Want) -> Option<Dep<'a>>
    ensures { world.now ≡ pool.now.world → option_map dependency result ≡ wanted pool.now want }
{
    match want.owner {
        Owner::World => {
            if want.index >= world.len() {
                return None;
            }
            if_positive(world.entry(want.index))
        }
        Owner::Package(id) => {
            let Some(details) = pool.at(candidate(id)) else {
                return None;
            };
            let depends = details.depends();
            if want.index >= depends.len() {
                return None;
            }
            if_positive(depends.get(want.index))
        }
    }
}

// The dependency; None if it is a conflict.
fn if_positive(dep: Dep<'_>) -> Option<Dep<'_>>
    ensures { option_map dependency result ≡ if_positive (Some (dependency dep.entry)) }
{
    if dep.conflict { None } else { Some(dep) }
}
