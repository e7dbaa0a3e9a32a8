//! The rules of a pool as clauses. A dependency is a clause of the candidate that has it and the
//! options for it; two candidates that exclude each other are a reason. The rules are in
//! `docs/selection.md`, "What satisfies world".
ghost use Rattle.std.specs.Prelude.{◌≡◌, ◌&&◌, true, false, IfOk, is_some, option_to_list};
ghost use Rattle.std.specs.List.{list_any};
ghost use Rattle.dep_core.specs.Dependency.{Dependency};
ghost use Rattle.dep_core.specs.Meets.{dependency};
ghost use Rattle.search_choices.specs.candidate_core.Candidates.{entry, meets_dependency, occupies_name};
ghost use Rattle.search_choices.specs.candidate_core.Options.{IsIn, options_for};
ghost use Rattle.search_choices.specs.search_tables.Selection.{depends_at, exclude_each_other, needs, occupied_names};
ghost use Rattle.solve_core.specs.Clauses.{IsClause};

use crate::clauses::Clause;
use crate::known::Known;
use crate::selection::options_are_as_promised;
use dep_core::Dep;
use search_choices::{CandId, CandidateSet, Details, NeedRef, Sealed};
use std::alloc::{AllocError, Global};

/// The most options of a need that is made a clause. A need with more options rarely forces one.
const MOST_OPTIONS: usize = 256;

/// The most candidates that offer a name, if reasons are made of them: each two may exclude each
/// other.
const MOST_OFFERS: usize = 256;

/// Adds the clauses of the entries of world to the known ones, and the options of these entries to
/// `reached`: the candidates whose own rules are to be added later.
pub(crate) fn add_world(
    alloc: Global,
    known: &mut Known<'_>,
    reached: &mut CandidateSet,
) -> Result<(), AllocError>
    // The pool is unchanged: `Known` is seen as its pool.
    ensures { known.new ≡ known.old }
{
    let world = known.world();
    for i in 0..world.len() {
        add_entry(alloc, known, &world.entry(i), reached)?;
    }
    Ok(())
}

// Adds the clause of an entry of world that is no conflict.
fn add_entry(
    alloc: Global,
    known: &mut Known<'_>,
    dep: &Dep<'_>,
    reached: &mut CandidateSet,
) -> Result<(), AllocError>
    // The dependency is an entry of the pool's world.
    requires { IsIn (dependency dep.now) known.old.world }
    ensures { known.new ≡ known.old }
{
    if dep.conflict {
        return Ok(());
    }
    let clause = need_clause(alloc, known.pool(), dep, None)?;
    add_need(known, clause, reached)
}

// Adds the clause of a need to the known ones, and its options to the candidates `reached`. If
// there are too many options, neither is added.
fn add_need(
    known: &mut Known<'_>,
    clause: Clause,
    reached: &mut CandidateSet,
) -> Result<(), AllocError>
    requires { IsClause known.old clause }
    // The pool is unchanged: `Known` is seen as its pool.
    ensures { known.new ≡ known.old }
{
    if clause.options().len() > MOST_OPTIONS {
        return Ok(());
    }
    reached.add_all(clause.options())?;
    known.push(clause)
}

/// Adds the clauses of the candidate `id` to the known ones: one for each of its dependencies, and
/// a reason for each candidate that it excludes. The options of the dependencies are added to
/// `reached`.
pub(crate) fn add_candidate(
    alloc: Global,
    known: &mut Known<'_>,
    id: CandId,
    reached: &mut CandidateSet,
) -> Result<(), AllocError>
    // The pool is unchanged: `Known` is seen as its pool.
    ensures { known.new ≡ known.old }
{
    let pool = known.pool();
    let Some(details) = pool.at(id) else {
        return Ok(());
    };
    let depends = details.depends();
    for i in 0..depends.len() {
        add_dependency(alloc, known, id, &depends.get(i), reached)?;
    }
    // Reasons against other candidates of the same name, and of the names that this one provides.
    add_exclusions(alloc, known, id, pool.offers(details.name()))?;
    add_provided(alloc, known, id, &details)
}

// Adds the clause of a dependency of the candidate `id`. If the dependency is a conflict, adds a
// reason for each candidate that `id` excludes among those that offer the conflict's name.
fn add_dependency(
    alloc: Global,
    known: &mut Known<'_>,
    id: CandId,
    dep: &Dep<'_>,
    reached: &mut CandidateSet,
) -> Result<(), AllocError>
    // The dependency is one of those of the candidate `id`, or one of its conflicts.
    requires { IsIn (dependency dep.now) (depends_at known.old id) }
    ensures { known.new ≡ known.old }
{
    let pool = known.pool();
    if dep.conflict {
        return add_exclusions(alloc, known, id, pool.offers(dep.name));
    }
    let clause = need_clause(alloc, pool, dep, Some(id))?;
    add_need(known, clause, reached)
}

// The clause of a need: its member is the candidate `by` that raises the need, or there is none if
// world does.
fn need_clause(
    alloc: Global,
    pool: &Sealed<'_>,
    dep: &Dep<'_>,
    by: Option<CandId>,
) -> Result<Clause, AllocError>
    // The candidate `by`, or world if there is none, raises this need.
    requires { IsIn (entry (dependency dep.now)) (needs pool.now (option_to_list by)) }
    ensures { IfOk result (λ clause. IsClause pool.now clause) }
{
    // A law that the proof needs; it has no effect at run time.
    options_are_as_promised();
    let clause = raiser_and_options(alloc, pool, dep, by)?;
    Ok(clause)
}

// The clause of a need: its member is the candidate `by` that raises the need, if there is one, and
// its options are those of the need.
fn raiser_and_options(
    alloc: Global,
    pool: &Sealed<'_>,
    dep: &Dep<'_>,
    by: Option<CandId>,
) -> Result<Clause, AllocError>
    // In this order: the members, and the options.
    ensures { IfOk result (λ clause. clause ≡ (
      option_to_list by,
      options_for pool.now
          (entry (dependency dep.now)),
    )) }
{
    let mut members = Vec::new(alloc);
    if let Some(id) = by {
        members.push(id)?;
    }
    let options = pool.options_for(alloc, &NeedRef::Entry(dep))?;
    Ok(Clause::new(members, options.into_ids()))
}

// Adds a reason for each candidate that occupies a name which the candidate `id` provides with a
// version: such candidates exclude `id`.
fn add_provided(
    alloc: Global,
    known: &mut Known<'_>,
    id: CandId,
    details: &Details<'_>,
) -> Result<(), AllocError>
    ensures { known.new ≡ known.old }
{
    let pool = known.pool();
    let provides = details.provides();
    for i in 0..provides.len() {
        let provided = provides.get(i);
        if provided.version.is_some() {
            add_exclusions(alloc, known, id, pool.offers(provided.name))?;
        }
    }
    Ok(())
}

// Adds a reason for each of the candidates `others` that the candidate `id` excludes, unless there
// are too many of them or of clauses.
fn add_exclusions(
    alloc: Global,
    known: &mut Known<'_>,
    id: CandId,
    others: &[CandId],
) -> Result<(), AllocError>
    ensures { known.new ≡ known.old }
{
    if others.len() > MOST_OFFERS || !known.has_room() {
        return Ok(());
    }
    for other in others {
        add_exclusion(alloc, known, id, *other)?;
    }
    Ok(())
}

// Adds the reason that has just these two candidates, if the first excludes the second.
fn add_exclusion(
    alloc: Global,
    known: &mut Known<'_>,
    id: CandId,
    other: CandId,
) -> Result<(), AllocError>
    ensures { known.new ≡ known.old }
{
    if !does_exclude(known.pool(), id, other) {
        return Ok(());
    }
    let clause = Clause::reason(alloc, &[id, other])?;
    known.push(clause)
}

// Whether the candidate `id` excludes the candidate `other`: by a conflict that `id` has, or by a
// name that both occupy. No candidate excludes itself.
fn does_exclude(pool: &Sealed<'_>, id: CandId, other: CandId) -> bool
    ensures { result ≡ true → exclude_each_other pool.now id other ≡ true }
{
    if id == other {
        return false;
    }
    let Some(details) = pool.at(id) else {
        return false;
    };
    let Some(others) = pool.at(other) else {
        return false;
    };
    if has_conflict_met_by(&details, &others) {
        return true;
    }
    shares_a_name(&details, &others)
}

// Whether the candidate `other` meets a conflict that the candidate with these details has.
fn has_conflict_met_by(details: &Details<'_>, other: &Details<'_>) -> bool
    // If the result is true, `other` meets a conflict of the candidate; false promises nothing.
    ensures { result ≡ true → list_any (λ (d : Dependency). d.conflict
        && meets_dependency d other.now) details.now.depends ≡ true }
{
    let depends = details.depends();
    for i in 0..depends.len() {
        if is_conflict_met_by(&depends.get(i), other) {
            return true;
        }
    }
    false
}

// Whether a dependency is a conflict that a candidate meets.
fn is_conflict_met_by(dep: &Dep<'_>, other: &Details<'_>) -> bool
    ensures { result ≡ ((dependency dep.now).conflict
        && meets_dependency (dependency dep.now) other.now) }
{
    dep.conflict && other.meets(dep)
}

// Whether both candidates occupy one and the same name.
fn shares_a_name(details: &Details<'_>, other: &Details<'_>) -> bool
    // If the result is true, both occupy one of the candidate's names; false promises nothing.
    ensures { result ≡ true → list_any (λ name. occupies_name name other.now)
        (occupied_names details.now) ≡ true }
{
    if other.occupies(details.name()) {
        return true;
    }
    let provides = details.provides();
    for i in 0..provides.len() {
        if occupies_provided(other, &provides.get(i)) {
            return true;
        }
    }
    false
}

// Whether an entry of provides occupies its name, and the candidate occupies this name too.
fn occupies_provided(other: &Details<'_>, provided: &Dep<'_>) -> bool
    // If the result is true, the entry is no conflict and has a version, and the candidate occupies
    // its name.
    ensures plain { result ≡ true → (dependency provided.now).conflict ≡ false }
    ensures versioned { result ≡ true → is_some (dependency provided.now).version ≡ true }
    ensures occupied { result ≡ true → occupies_name (dependency provided.now).name other.now
        ≡ true }
{
    if provided.conflict || provided.version.is_none() {
        return false;
    }
    other.occupies(provided.name)
}
