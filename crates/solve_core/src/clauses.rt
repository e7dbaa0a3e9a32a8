//! Clauses about a pool, as a SAT solver has them: each satisfying selection that has all *members*
//! of a clause has one of its *options*. A clause without options is a reason. A clause is a fact
//! about the pool: it holds whatever is chosen. The rule is in `docs/selection.md`, "How the search
//! works".
ghost use Rattle.std.specs.Prelude.{◌≡◌, ◌⊎◌, ◌==◌, true, not, filter, IfOk, OnOk, [], ℕ};
ghost use Rattle.search_choices.specs.candidate_core.Options.{IsIn};
ghost use Rattle.search_choices.specs.candidate_core.Rank.{SelectionProblem};
ghost use Rattle.search_choices.specs.search_tables.Selection.{AreAllMembersOf};
ghost use Rattle.solve_core.specs.Clauses.{AreAllMembersOfOr, IsClause};
ghost use Rattle.search_choices.specs.Choices.{choices_of};

use search_choices::{CandId, Choices};
use std::alloc::{AllocError, Global};
use std::marker::Model;

/// A clause: each satisfying selection that has all members has one of the options.
#[derive(Drop)]
pub(crate) struct Clause {
    /// The members: the clause is about the selections that have all of these candidates.
    members: Vec<CandId>,
    /// The options: each such satisfying selection has one of these candidates. A reason has no
    /// options.
    options: Vec<CandId>,
}

impl Model for Clause {
    ghost use Rattle.std.specs.Prelude.{ℕ, List};

    ghost Value = { List ℕ × List ℕ };

    // In this order: the members, and the options.
    ghost view = { λ clause. (clause.members.items, clause.options.items) };
}

impl Clause {
    /// A clause with these members and options.
    pub(crate) fn new(members: Vec<CandId>, options: Vec<CandId>) -> Clause
        ensures { result ≡ (members.items, options.items) }
    {
        Clause { members, options }
    }

    /// The reason with these members: a clause without options.
    pub(crate) fn reason(alloc: Global, members: &[CandId]) -> Result<Clause, AllocError>
        ensures { IfOk result (λ clause. clause ≡ (members.now, [])) }
    {
        let members = Vec::from_slice(alloc, members)?;
        Ok(Clause {
            members,
            options: Vec::new(alloc),
        })
    }

    /// A copy of the clause.
    pub(crate) fn copy(&self, alloc: Global) -> Result<Clause, AllocError>
        ensures { IfOk result (λ clause. clause ≡ self.now) }
    {
        let members = Vec::from_slice(alloc, self.members.as_slice())?;
        let options = Vec::from_slice(alloc, self.options.as_slice())?;
        Ok(Clause { members, options })
    }

    /// The members: the clause is about the selections that have all of them.
    pub(crate) fn members(&self) -> &[CandId]
        ensures { result.now ≡ self.now.0 }
    {
        self.members.as_slice()
    }

    /// The options, of which each such satisfying selection has one; none in a reason.
    pub(crate) fn options(&self) -> &[CandId]
        ensures { result.now ≡ self.now.1 }
    {
        self.options.as_slice()
    }

    /// How many members and options there are.
    pub(crate) fn size(&self) -> usize {
        self.members().len().saturating_add(self.options().len())
    }

    /// Whether the clause is a reason: it has no options.
    pub(crate) fn is_reason(&self) -> bool
        ensures { result ≡ true → self.now.1 ≡ [] }
    {
        self.options().is_empty()
    }
}

/// The resolvent of two clauses at a candidate, which is an option of the first and a member of the
/// second. The resolvent has all members and options of both clauses but this candidate.
pub(crate) fn resolvent(
    alloc: Global,
    first: &Clause,
    second: &Clause,
    id: CandId,
) -> Result<Clause, AllocError>
    // If both are clauses of a pool, so is the resolvent.
    ensures { IfOk result (λ clause. (pool : SelectionProblem) → IsClause pool first.now →
        IsClause pool second.now → IsClause pool clause) }
{
    let mut members = Vec::from_slice(alloc, first.members())?;
    add_others(&mut members, second.members(), id)?;
    let mut options = Vec::from_slice(alloc, second.options())?;
    add_others(&mut options, first.options(), id)?;
    Ok(Clause { members, options })
}

// Appends to the list each of the candidates `ids` that it does not have, except for the candidate
// `but`.
fn add_others(list: &mut Vec<CandId>, ids: &[CandId], but: CandId) -> Result<(), AllocError>
    // The list keeps its members, and then has each of the candidates `ids` except for `but`.
    ensures old { OnOk result (AreAllMembersOf list.old.items list.new.items) }
    ensures new { OnOk result (AreAllMembersOfOr ids.now but list.new.items) }
{
    for id in ids {
        add_unless(list, *id, but)?;
    }
    Ok(())
}

// Appends the candidate `id`, unless it is the candidate `but`, or is in the list already.
fn add_unless(list: &mut Vec<CandId>, id: CandId, but: CandId) -> Result<(), AllocError>
    // The list keeps its members. The candidate is `but`, or is in the list afterwards.
    ensures old { OnOk result (AreAllMembersOf list.old.items list.new.items) }
    ensures new { OnOk result ((id ≡ but) ⊎ IsIn id list.new.items) }
{
    if id == but {
        return Ok(());
    }
    if has(list.as_slice(), id) {
        return Ok(());
    }
    list.push(id)?;
    Ok(())
}

// Whether a list has a candidate.
fn has(list: &[CandId], id: CandId) -> bool
    ensures { result ≡ true → IsIn id list.now }
{
    for one in list {
        if *one == id {
            return true;
        }
    }
    false
}

/// Whether each member of a reason, except for the candidate `id`, is a choice: then the reason
/// rules this candidate out.
pub(crate) fn are_others_choices(members: &[CandId], id: CandId, chosen: &Choices<'_>) -> bool
    ensures { result ≡ true → AreAllMembersOfOr members.now id (choices_of chosen.now) }
{
    for member in members {
        if !is_choice_or(*member, id, chosen) {
            return false;
        }
    }
    true
}

// Whether a member of a reason is the given candidate or a choice.
fn is_choice_or(member: CandId, id: CandId, chosen: &Choices<'_>) -> bool
    ensures { result ≡ true → (member ≡ id) ⊎ IsIn member (choices_of chosen.now) }
{
    if member == id {
        return true;
    }
    chosen.has(member)
}

/// Whether each member of a reason is a choice.
pub(crate) fn are_choices(members: &[CandId], chosen: &Choices<'_>) -> bool
    ensures { result ≡ true → AreAllMembersOf members.now (choices_of chosen.now) }
{
    for member in members {
        if !chosen.has(*member) {
            return false;
        }
    }
    true
}

/// The members of a reason without this choice: they rule the choice out.
pub(crate) fn without(
    alloc: Global,
    members: &[CandId],
    choice: CandId,
) -> Result<Vec<CandId>, AllocError>
    ensures { IfOk result (λ others. others.items ≡ filter (λ id. not (id == choice)) members.now) }
{
    members
        .iter()
        .copied()
        .filter(|id| *id != choice)
        .collect(alloc)
}
