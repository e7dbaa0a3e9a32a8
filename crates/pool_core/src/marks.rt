//! The marks of candidates by world: whether each may be selected, and whether world pins it. An
//! entry is tried only on the candidates that offer its name, so all marks take time linear in the
//! candidates, the entries and the offers of their names. The rules are in `docs/selection.md`:
//! "What there is to choose from" (*allowed* and *barred*), and "Which selection is taken", key 1
//! of the table (pinned candidates).
ghost use Rattle.std.specs.Prelude.{◌≡◌, ◌<◌, ◌&&◌, false, length, map, not, IfOk, OnOk};
ghost use Rattle.std.specs.Option.{option_map_or};
ghost use Rattle.std.specs.List.{list_any};
ghost use Rattle.std.specs.Str.{bytes_eq};
ghost use Rattle.dep_core.specs.Meets.{dependency};
ghost use Rattle.option_ranks.specs.candidate_core.Candidates.{is_allowed_by_tags_of_world, is_barred_by_world, meets_dependency, is_tag_used_in_world};
ghost use Rattle.option_ranks.specs.candidate_core.Matches.{AreRememberedMatchesOf};
ghost use Rattle.pool_core.specs.Marks.{affects, is_affected, with_mark_set_at, with_marks_set};
ghost use Rattle.pool_core.specs.PoolMatches.{IsCandidateWithMatches};
ghost use Rattle.option_ranks.specs.candidate_core.Options.{places_offering};
ghost use Rattle.option_ranks.specs.candidate_core.Packages.{candidates_of_packages};
ghost use Rattle.option_ranks.specs.candidate_core.Rank.{is_pinned};
ghost use Rattle.option_ranks.specs.candidate_core.Table.{HasPlacesOfEachName};
ghost use Rattle.option_ranks.specs.candidate_core.VersionTexts.{source_text};

use dep_core::Dep;
use option_ranks::{CandId, Details, KnownMatches, NeedRef, Packages, Table, is_long};
use std::alloc::{AllocError, Global};

/// The effect that an entry of world may have on a candidate.
#[derive(Clone, Copy)]
pub(crate) enum Effect {
    /// The entry bars the candidate: no selection has it.
    Bar,
    /// The entry pins the candidate's name to its tag.
    Pin,
}

/// For each candidate, whether it may be selected. `tagged` are the entries of world that have a
/// tag, and `conflicts` those that are conflicts; other entries change no mark.
pub(crate) fn eligible_marks(
    alloc: Global,
    packages: &Packages<'_>,
    table: &Table<'_>,
    tagged: &[Dep<'_>],
    conflicts: &[Dep<'_>],
) -> Result<Vec<bool>, AllocError>
    requires { HasPlacesOfEachName table.now (candidates_of_packages packages.now) }
    // A candidate's mark is true if it is allowed and not barred.
    ensures { IfOk result (λ marks. marks.items ≡ map (λ one.
        is_allowed_by_tags_of_world (map dependency tagged.now) one
        && not (is_barred_by_world (map dependency conflicts.now) one))
        (candidates_of_packages packages.now)) }
{
    let mut ineligible = disallowed_marks(alloc, packages, tagged)?;
    mark_affected(
        alloc,
        &mut ineligible,
        packages,
        table,
        conflicts,
        Effect::Bar,
    )?;
    opposite_marks(alloc, &ineligible)
}

/// For each candidate, whether world pins the candidate's name to the candidate's tag. `tagged` are
/// the entries of world that have a tag.
pub(crate) fn pinned_marks(
    alloc: Global,
    packages: &Packages<'_>,
    table: &Table<'_>,
    tagged: &[Dep<'_>],
) -> Result<Vec<bool>, AllocError>
    requires { HasPlacesOfEachName table.now (candidates_of_packages packages.now) }
    // A candidate's mark is true if world pins the candidate's name to its tag.
    ensures { IfOk result (λ marks. marks.items
        ≡ map (λ one. is_pinned (map dependency tagged.now) one)
        (candidates_of_packages packages.now)) }
{
    let mut marks = no_marks(alloc, packages)?;
    mark_affected(alloc, &mut marks, packages, table, tagged, Effect::Pin)?;
    Ok(marks)
}

// For each candidate, whether it is not allowed: it is not installed, and is from a repository with
// a tag that no entry of world uses.
fn disallowed_marks(
    alloc: Global,
    packages: &Packages<'_>,
    tagged: &[Dep<'_>],
) -> Result<Vec<bool>, AllocError>
    // A candidate's mark is true if the candidate is not allowed.
    ensures { IfOk result (λ marks. marks.items
        ≡ map (λ one. not (is_allowed_by_tags_of_world (map dependency tagged.now) one))
        (candidates_of_packages packages.now)) }
{
    let mut marks = Vec::with_capacity(alloc, packages.len())?;
    for place in 0..packages.len() {
        marks.push(!is_allowed_by_tags_of_world(&packages.get(place), tagged))?;
    }
    Ok(marks)
}

// A list with one mark for each candidate, none of them set.
fn no_marks(alloc: Global, packages: &Packages<'_>) -> Result<Vec<bool>, AllocError>
    ensures { IfOk result (λ marks. marks.items
        ≡ map (λ one. false) (candidates_of_packages packages.now)) }
{
    let mut marks = Vec::with_capacity(alloc, packages.len())?;
    for _place in 0..packages.len() {
        marks.push(false)?;
    }
    Ok(marks)
}

// A list with the opposite of each mark, in the same order.
fn opposite_marks(alloc: Global, marks: &[bool]) -> Result<Vec<bool>, AllocError>
    ensures { IfOk result (λ others. others.items ≡ map not marks.now) }
{
    marks.iter().map(|mark| !*mark).collect(alloc)
}

// Sets the mark of each candidate on which one of the entries of world in `entries` has this
// effect. Other marks are unchanged.
fn mark_affected(
    alloc: Global,
    marks: &mut Vec<bool>,
    packages: &Packages<'_>,
    table: &Table<'_>,
    entries: &[Dep<'_>],
    effect: Effect,
) -> Result<(), AllocError>
    // The table leads from each name to the places of the candidates that offer it.
    requires leads { HasPlacesOfEachName table.now (candidates_of_packages packages.now) }
    // There is one mark for each candidate.
    requires each { length marks.old.items ≡ length (candidates_of_packages packages.now) }
    // The marks that become true are those of the candidates on which an entry has the effect.
    ensures { OnOk result (marks.new.items
        ≡ with_marks_set (is_affected effect (map dependency entries.now))
        marks.old.items (candidates_of_packages packages.now)) }
{
    for entry in entries {
        mark_among(alloc, marks, packages, table.get(entry.name), entry, effect)?;
    }
    Ok(())
}

// Sets the mark of each candidate on which this entry of world has the effect. `ids` are the places
// of the candidates that offer the entry's name: the entry has no effect on others. A long version
// that many candidates share is compared once with the entry's.
fn mark_among(
    alloc: Global,
    marks: &mut Vec<bool>,
    packages: &Packages<'_>,
    ids: &[CandId],
    entry: &Dep<'_>,
    effect: Effect,
) -> Result<(), AllocError>
    // The places are those of all candidates that offer the entry's name.
    requires offers { ids.now
        ≡ places_offering (dependency entry.now).name (candidates_of_packages packages.now) }
    // There is one mark for each candidate.
    requires each { length marks.old.items ≡ length (candidates_of_packages packages.now) }
    // The marks that become true are those of the candidates on which the entry has the effect.
    ensures { OnOk result (marks.new.items ≡ with_marks_set (affects effect (dependency entry.now))
        marks.old.items (candidates_of_packages packages.now)) }
{
    let mut known = KnownMatches::new(alloc);
    for id in ids {
        mark_one(marks, packages, *id, entry, effect, &mut known)?;
    }
    Ok(())
}

// Sets the mark of the candidate at a place if the entry has this effect on the candidate. Results
// for long versions are remembered.
fn mark_one(
    marks: &mut Vec<bool>,
    packages: &Packages<'_>,
    id: CandId,
    entry: &Dep<'_>,
    effect: Effect,
    known: &mut KnownMatches,
) -> Result<(), AllocError>
    requires within { id < length (candidates_of_packages packages.now) }
    // There is one mark for each candidate.
    requires each { length marks.old.items ≡ length (candidates_of_packages packages.now) }
    // The remembered results are right for the entry.
    requires known { AreRememberedMatchesOf (source_text packages.now.sources.items)
        (dependency entry.now) known.old }
    // Only the mark at the place may become true, if the entry has the effect there.
    ensures marks { OnOk result (marks.new.items
        ≡ with_mark_set_at (affects effect (dependency entry.now)) id
        marks.old.items (candidates_of_packages packages.now)) }
    // The results that are remembered after the call are right for the entry.
    ensures known { OnOk result (AreRememberedMatchesOf (source_text packages.now.sources.items)
        (dependency entry.now) known.new) }
{
    let place = id.place as usize;
    let one = packages.get(place);
    let is_affected = affects(effect, entry, &one, packages, place, known)?;
    if !is_affected {
        return Ok(());
    }
    marks[place] = true;
    Ok(())
}

// Whether an entry of world has this effect on the candidate `one`, which is at the place `place`.
fn affects(
    effect: Effect,
    entry: &Dep<'_>,
    one: &Details<'_>,
    packages: &Packages<'_>,
    place: usize,
    known: &mut KnownMatches,
) -> Result<bool, AllocError>
    // `one` is the candidate at the place, and the remembered results are right for the entry.
    requires { IsCandidateWithMatches packages.now place one.now (dependency entry.now) known.old }
    // The answer is whether the entry has this effect on the candidate.
    ensures affects { IfOk result (λ answer. answer
        ≡ affects effect (dependency entry.now) one.now) }
    // The results that are remembered after the call are right for the entry.
    ensures known { OnOk result (AreRememberedMatchesOf (source_text packages.now.sources.items)
        (dependency entry.now) known.new) }
{
    match effect {
        Effect::Bar => bars(entry, one, packages, place, known),
        Effect::Pin => Ok(pins(entry, one)),
    }
}

// Whether an entry of world bars the candidate `one` at the place `place`: the entry is a conflict,
// and the candidate meets it.
fn bars(
    entry: &Dep<'_>,
    one: &Details<'_>,
    packages: &Packages<'_>,
    place: usize,
    known: &mut KnownMatches,
) -> Result<bool, AllocError>
    // `one` is the candidate at the place, and the remembered results are right for the entry.
    requires { IsCandidateWithMatches packages.now place one.now (dependency entry.now) known.old }
    // The answer is whether the entry is a conflict, and the candidate meets it.
    ensures bars { IfOk result (λ answer. answer ≡ ((dependency entry.now).conflict
        && meets_dependency (dependency entry.now) one.now)) }
    // The results that are remembered after the call are right for the entry.
    ensures known { OnOk result (AreRememberedMatchesOf (source_text packages.now.sources.items)
        (dependency entry.now) known.new) }
{
    if !entry.conflict {
        return Ok(false);
    }
    if !is_long(&entry.version) {
        return Ok(one.meets(entry));
    }
    packages.meets_dependency_or_has_package_name(place, &NeedRef::Entry(entry), known)
}

// Whether an entry of world pins the candidate's name to the candidate's tag: the entry has this
// name and this tag. The entry may be a conflict.
fn pins(entry: &Dep<'_>, one: &Details<'_>) -> bool
    // The candidate has a tag, and the entry has the candidate's name and this tag.
    ensures { result ≡ option_map_or (λ tag. bytes_eq one.now.name (dependency entry.now).name
        && option_map_or (bytes_eq tag) (dependency entry.now).tag false) one.now.tag false }
{
    match one.tag() {
        None => false,
        Some(tag) => one.name() == entry.name && has_tag(entry, tag),
    }
}

// Whether an entry of world has the tag `tag`.
fn has_tag(dep: &Dep<'_>, tag: &[u8]) -> bool
    ensures { result ≡ option_map_or (bytes_eq tag.now) (dependency dep.now).tag false }
{
    match dep.tag {
        None => false,
        Some(other) => tag == other,
    }
}

// Whether a candidate is allowed: it is installed, from no repository, from a repository without
// tag, or from one whose tag is that of an entry of world. `tagged` has all entries with a tag.
fn is_allowed_by_tags_of_world(one: &Details<'_>, tagged: &[Dep<'_>]) -> bool
    ensures { result ≡ is_allowed_by_tags_of_world (map dependency tagged.now) one.now }
{
    if one.is_installed() {
        return true;
    }
    if one.repo().is_none() {
        return true;
    }
    match one.tag() {
        None => true,
        Some(tag) => is_tag_used_in_world(tagged, tag),
    }
}

// Whether one of these entries of world has the tag `tag`.
#[tactic(auto, using(candidate_core::proofs::Anyone::any_map))]
fn is_tag_used_in_world(tagged: &[Dep<'_>], tag: &[u8]) -> bool
    ensures { result ≡ is_tag_used_in_world (map dependency tagged.now) tag.now }
{
    any_has_tag(tagged, tag)
}

// Whether one of these entries has the tag `tag`. In the clause, the entries are values of the
// program, not of the definitions.
fn any_has_tag(tagged: &[Dep<'_>], tag: &[u8]) -> bool
    ensures { result ≡ list_any
        (λ dep. option_map_or (bytes_eq tag.now) (dependency dep).tag false) tagged.now }
{
    tagged.iter().any(|dep| has_tag(dep, tag))
}
