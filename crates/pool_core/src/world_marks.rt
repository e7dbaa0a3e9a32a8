//! The effect of world on each candidate: whether it may be selected, whether world pins its name
//! to its tag, and which install-if can apply. The rules are in `docs/selection.md`: "What there is
//! to choose from" (which candidates may be selected), "What satisfies world", 4 (install-if), and
//! "Which selection is taken", key 1 (pins).
ghost use Rattle.std.specs.Prelude.{◌≡◌, ◌<◌, ◌^◌, ◌++◌, ◌∷◌, [], map, length, IfOk, OnOk, ◌&&◌, not, if◌then◌else◌};
ghost use Rattle.dep_core.specs.Meets.{dependency};
ghost use Rattle.option_ranks.specs.candidate_core.Candidates.{is_eligible_with_positive_install_if, is_eligible};
ghost use Rattle.option_ranks.specs.candidate_core.CandidateList.{IsCandidateList};
ghost use Rattle.option_ranks.specs.candidate_core.Options.{places_passing_counted_from};
ghost use Rattle.option_ranks.specs.candidate_core.Packages.{candidates_of_packages};
ghost use Rattle.option_ranks.specs.candidate_core.Rank.{is_pinned};
ghost use Rattle.option_ranks.specs.candidate_core.PositiveInstallIfs.{has_positive_install_if, places_marked_with_install_if};
ghost use Rattle.pool_core.specs.World.{entries_of_kind, is_entry_of_kind};

use crate::marks::{eligible_marks, pinned_marks};
use dep_core::{Dep, World};
use option_ranks::{CandId, CandidateList, Details, Packages};
use std::alloc::{AllocError, Global};

/// The kinds of entries of world that affect candidates. An entry can be of both kinds, or of none.
#[derive(Clone, Copy)]
enum EntryKind {
    /// The entry is a conflict: it bars the candidates that meet it.
    Conflict,
    /// The entry has a tag: it allows the candidates whose repository has this tag, and pins its
    /// name to the tag.
    Tagged,
}

/// The effect of world on each candidate of a list.
#[derive(Drop)]
pub(crate) struct WorldMarks {
    /// For each candidate, whether it may be selected: it is allowed, and not barred.
    pub eligible: Vec<bool>,
    /// For each candidate, whether world pins the candidate's name to the candidate's tag.
    pub pinned: Vec<bool>,
    /// The places of the candidates whose install-if can apply, in rising order.
    pub install_ifs: Vec<CandId>,
}

/// Computes the effect of world on each candidate of a list.
pub(crate) fn marks_by_world(
    alloc: Global,
    list: &CandidateList<'_>,
    world: &World,
) -> Result<WorldMarks, AllocError>
    requires { IsCandidateList list.now }
    // A candidate's mark is true if the candidate may be selected.
    ensures eligible { IfOk result (λ marks. marks.eligible.items
        ≡ map (is_eligible world.now) (candidates_of_packages list.now.packages)) }
    // A candidate's mark is true if world pins the candidate's name to its tag.
    ensures pinned { IfOk result (λ marks. marks.pinned.items
        ≡ map (is_pinned world.now) (candidates_of_packages list.now.packages)) }
    // The places of the candidates whose install-if can apply, in rising order.
    ensures install_ifs { IfOk result (λ marks. marks.install_ifs.items
        ≡ places_passing_counted_from 0 (is_eligible_with_positive_install_if world.now)
        (candidates_of_packages list.now.packages)) }
{
    let conflicts = entries_of_kind(alloc, world, EntryKind::Conflict)?;
    let tagged = entries_of_kind(alloc, world, EntryKind::Tagged)?;
    let eligible = eligible_marks(alloc, &list.packages, &list.table, &tagged, &conflicts)?;
    let pinned = pinned_marks(alloc, &list.packages, &list.table, &tagged)?;
    let install_ifs = install_ifs_among(alloc, &list.packages, &eligible)?;
    Ok(WorldMarks {
        eligible,
        pinned,
        install_ifs,
    })
}

// The entries of world that are of one kind, in their order.
fn entries_of_kind<'a>(
    alloc: Global,
    world: &'a World,
    kind: EntryKind,
) -> Result<Vec<Dep<'a>>, AllocError>
    ensures { IfOk result (λ deps. map dependency deps.items
        ≡ entries_of_kind kind world.entry.now) }
{
    let mut deps = Vec::new(alloc);
    for i in 0..world.len() {
        push_if(&mut deps, world.entry(i), kind)?;
    }
    Ok(deps)
}

// Appends an entry of world to a list if the entry is of this kind.
fn push_if<'a>(deps: &mut Vec<Dep<'a>>, dep: Dep<'a>, kind: EntryKind) -> Result<(), AllocError>
    // The entry is appended if it is of this kind.
    ensures { OnOk result (map dependency deps.new.items ≡ map dependency deps.old.items
        ++ (if is_entry_of_kind kind (dependency dep.entry) then dependency dep.entry ∷ []
        else [])) }
{
    if is_entry_of_kind(kind, &dep) {
        deps.push(dep)?;
    }
    Ok(())
}

/// Whether an entry of world is of this kind.
fn is_entry_of_kind(kind: EntryKind, dep: &Dep<'_>) -> bool
    ensures { result ≡ is_entry_of_kind kind (dependency dep.now) }
{
    match kind {
        EntryKind::Conflict => dep.conflict,
        EntryKind::Tagged => dep.tag.is_some(),
    }
}

// The places, in rising order, of the candidates that may be selected (their marks in `eligible`
// are true), and have an install-if that is not empty and has no conflict.
fn install_ifs_among(
    alloc: Global,
    packages: &Packages<'_>,
    eligible: &[bool],
) -> Result<Vec<CandId>, AllocError>
    // Each place is a number of 32 bits, and there is one mark for each candidate.
    requires few { length (candidates_of_packages packages.now) < 2 ^ 32 }
    requires marked { length eligible.now ≡ length (candidates_of_packages packages.now) }
    // The result has the places of the candidates whose mark is true, and whose install-if has an
    // entry and no conflict.
    ensures { IfOk result (λ ids. ids.items
        ≡ places_marked_with_install_if 0 eligible.now
        (candidates_of_packages packages.now)) }
{
    let mut ids = Vec::new(alloc);
    for place in 0..packages.len() {
        push_if_marked(&mut ids, place, eligible[place], &packages.get(place))?;
    }
    Ok(ids)
}

// Appends the place of a candidate if `is_marked` is true (it may be selected), and its install-if
// has entries and no conflict.
fn push_if_marked(
    ids: &mut Vec<CandId>,
    place: usize,
    is_marked: bool,
    one: &Details<'_>,
) -> Result<(), AllocError>
    requires { place < 2 ^ 32 }
    // The place is appended if the mark is true, and the install-if has an entry and no conflict.
    ensures { OnOk result (ids.new.items ≡ ids.old.items
        ++ (if is_marked && has_positive_install_if one.now then place ∷ [] else [])) }
{
    if is_marked && one.has_positive_install_if() {
        ids.push(CandId {
            place: place as u32,
        })?;
    }
    Ok(())
}
