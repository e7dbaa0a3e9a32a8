//! The lines that explain why nothing can be selected. They are listed in `specs/Lines.antt`.
ghost use Rattle.std.specs.Prelude.{◌≡◌, ◌++◌, ◌<◌, ◌+◌, OnOk, IfOk, option_copied, option_to_list, take};
ghost use Rattle.std.specs.List.{flat_map};
ghost use Rattle.dep_core.specs.Meets.{dependency};
ghost use Rattle.unmet_world.specs.Exclusion.{conflict_between, shared_name_at_places};
ghost use Rattle.unmet_world.specs.Refutation.{wanted};
ghost use Rattle.unmet_world.specs.Lines.{needs_text, with_texts, missing_lines, want_lines, only_candidate_lines, conflict_text, shared_name_text, exclusion_lines, step_lines, most_printed_lines, refutation_lines, world_lines, printed_line, text_of_at_most_ten_lines, explanation_lines, explanation_text};

use crate::exclusion::{conflict_between, shared_name_at_places};
use crate::refutation::{Owner, Refutation, Step, Want, candidate, wanted};
use crate::texts::{Sources, add_candidate_at, add_dep, add_once, add_owner, offers_line_of_name};
use base_core::Text;
use dep_core::Dep;
use hint_core::push_printed;
use search_tables::{CandId, NeedRef};
use std::alloc::{AllocError, Global};

/// How many lines there are at most.
const MOST_LINES: usize = 10;

// ---- steps

// The text that an owner needs the dependency `dep`, as in `etc/apk/world needs app`.
fn needs(
    alloc: Global,
    sources: &Sources<'_>,
    owner: Owner,
    dep: &Dep<'_>,
) -> Result<Vec<u8>, AllocError>
    ensures { IfOk result (λ line. line.items
        ≡ needs_text sources.now.pool.now sources.now.listed.now sources.now.repositories.now owner
        (dependency dep.now)) }
{
    let mut line = Vec::new(alloc);
    add_owner(&mut line, sources, owner, dep)?;
    line.extend_from_slice(b" needs ")?;
    add_dep(&mut line, dep)?;
    Ok(line)
}

// Adds the lines of a wanted dependency: who needs it, and, if no candidate that may be selected
// meets it, which candidates offer its name.
fn add_want(
    alloc: Global,
    lines: &mut Vec<Text>,
    sources: &Sources<'_>,
    want: Want,
) -> Result<(), AllocError>
    // The world is the one with which the pool was sealed.
    requires { sources.now.world.now ≡ sources.now.pool.now.world }
    ensures { OnOk result (lines.new.items ≡ with_texts lines.old.items
        (want_lines sources.now.pool.now sources.now.listed.now sources.now.repositories.now want)) }
{
    let Some(dep) = wanted(sources.pool, sources.world, want) else {
        return Ok(());
    };
    let line = needs(alloc, sources, want.owner, &dep)?;
    add_once(lines, Text::from_vec(line))?;
    let options = sources.pool.options_for(alloc, &NeedRef::Entry(&dep))?;
    if !options.is_empty() {
        return Ok(());
    }
    let line = offers_line_of_name(alloc, sources, dep.name)?;
    add_once(lines, line)
}

// Adds the line that says that the candidate `id` is the only one left for a wanted dependency.
fn add_only(
    alloc: Global,
    lines: &mut Vec<Text>,
    sources: &Sources<'_>,
    want: Want,
    id: CandId,
) -> Result<(), AllocError>
    // The world is the one with which the pool was sealed.
    requires { sources.now.world.now ≡ sources.now.pool.now.world }
    ensures { OnOk result (lines.new.items ≡ with_texts lines.old.items
        (only_candidate_lines sources.now.pool.now sources.now.listed.now sources.now.repositories.now
        want.owner id (wanted sources.now.pool.now want))) }
{
    let Some(dep) = wanted(sources.pool, sources.world, want) else {
        return Ok(());
    };
    let mut line = needs(alloc, sources, want.owner, &dep)?;
    line.extend_from_slice(b": only ")?;
    add_candidate_at(&mut line, sources, id)?;
    add_once(lines, Text::from_vec(line))
}

// The text that the candidate `a` has the conflict `dep`, which the candidate `b` meets.
fn conflict(
    alloc: Global,
    sources: &Sources<'_>,
    a: CandId,
    b: CandId,
    dep: &Dep<'_>,
) -> Result<Text, AllocError>
    ensures { IfOk result (λ line. line ≡ conflict_text sources.now.pool.now
        sources.now.repositories.now a b (dependency dep.now)) }
{
    let mut line = Vec::new(alloc);
    add_candidate_at(&mut line, sources, a)?;
    line.extend_from_slice(b" conflicts with ")?;
    add_candidate_at(&mut line, sources, b)?;
    line.extend_from_slice(b": ")?;
    add_dep(&mut line, dep)?;
    Ok(Text::from_vec(line))
}

// The text that the candidates `a` and `b` both occupy a name.
fn sharing(
    alloc: Global,
    sources: &Sources<'_>,
    a: CandId,
    b: CandId,
    name: &[u8],
) -> Result<Text, AllocError>
    ensures { IfOk result (λ line. line ≡ shared_name_text sources.now.pool.now
        sources.now.repositories.now a b name.now) }
{
    let mut line = Vec::new(alloc);
    add_candidate_at(&mut line, sources, a)?;
    line.extend_from_slice(b" and ")?;
    add_candidate_at(&mut line, sources, b)?;
    line.extend_from_slice(b" exclude each other: both are ")?;
    line.extend_from_slice(name)?;
    Ok(Text::from_vec(line))
}

// Adds the line that says by what two candidates exclude each other: a conflict of `a`, one of `b`,
// or a name; nothing if they do not.
fn add_exclusion(
    alloc: Global,
    lines: &mut Vec<Text>,
    sources: &Sources<'_>,
    a: CandId,
    b: CandId,
) -> Result<(), AllocError>
    ensures { OnOk result (lines.new.items ≡ with_texts lines.old.items
        (exclusion_lines sources.now.pool.now
        sources.now.repositories.now a b (conflict_between sources.now.pool.now a b)
        (conflict_between sources.now.pool.now b a)
        (shared_name_at_places sources.now.pool.now a b))) }
{
    if let Some(dep) = conflict_between(sources.pool, a, b) {
        return add_once(lines, conflict(alloc, sources, a, b, &dep)?);
    }
    if let Some(dep) = conflict_between(sources.pool, b, a) {
        return add_once(lines, conflict(alloc, sources, b, a, &dep)?);
    }
    match shared_name_at_places(sources.pool, a, b) {
        None => Ok(()),
        Some(name) => add_once(lines, sharing(alloc, sources, a, b, name)?),
    }
}

// Adds the lines that explain a step of a refutation.
fn add_step(
    alloc: Global,
    lines: &mut Vec<Text>,
    sources: &Sources<'_>,
    step: Step,
) -> Result<(), AllocError>
    // The world is the one with which the pool was sealed.
    requires { sources.now.world.now ≡ sources.now.pool.now.world }
    ensures { OnOk result (lines.new.items ≡ with_texts lines.old.items
        (step_lines sources.now.pool.now sources.now.listed.now sources.now.repositories.now step)) }
{
    match step {
        Step::Broken { id, index } => {
            let owner = Owner::Package(id);
            add_want(alloc, lines, sources, Want { owner, index })
        }
        Step::Excluded { id, by } => {
            add_exclusion(alloc, lines, sources, candidate(by), candidate(id))
        }
        Step::Sure { id, want } => add_only(alloc, lines, sources, want, candidate(id)),
    }
}

// The first of these steps, at most as many as lines are printed.
fn first_of(steps: &[Step]) -> &[Step]
    ensures { result.now ≡ take most_printed_lines steps.now }
{
    if steps.len() > MOST_LINES {
        &steps[..MOST_LINES]
    } else {
        steps
    }
}

// The lines of a refutation, each once: first those of its end, then those of its first ten steps.
fn refutation_lines(
    alloc: Global,
    sources: &Sources<'_>,
    refutation: &Refutation,
) -> Result<Vec<Text>, AllocError>
    // The world is the one with which the pool was sealed.
    requires { sources.now.world.now ≡ sources.now.pool.now.world }
    ensures { IfOk result (λ lines. lines.items
        ≡ refutation_lines sources.now.pool.now sources.now.listed.now
        sources.now.repositories.now refutation.now) }
{
    let mut lines = Vec::new(alloc);
    add_want(alloc, &mut lines, sources, refutation.end)?;
    let steps = first_of(&refutation.steps);
    for step in steps {
        add_step(alloc, &mut lines, sources, *step)?;
    }
    Ok(lines)
}

// A line for each entry of world that is no conflict.
fn world_lines(alloc: Global, sources: &Sources<'_>) -> Result<Vec<Text>, AllocError>
    // The world is the one with which the pool was sealed.
    requires { sources.now.world.now ≡ sources.now.pool.now.world }
    ensures { IfOk result (λ lines. lines.items
        ≡ world_lines sources.now.listed.now sources.now.pool.now.world) }
{
    let mut lines = Vec::new(alloc);
    let world = sources.world;
    for i in 0..world.len() {
        let dep = world.entry(i);
        if !dep.conflict {
            let line = needs(alloc, sources, Owner::World, &dep)?;
            lines.push(Text::from_vec(line))?;
        }
    }
    Ok(lines)
}

// ---- printing

// Adds a line as it is printed: after the name of the program, and with bytes that do not print
// escaped.
fn add_printed(text: &mut Vec<u8>, line: &[u8]) -> Result<(), AllocError>
    ensures { OnOk result (text.new.items ≡ text.old.items ++ printed_line line.now) }
{
    text.extend_from_slice(b"apk: ")?;
    push_printed(text, line)?;
    text.extend_from_slice(b"\n")
}

// Adds some lines as they are printed.
fn add_all_printed(text: &mut Vec<u8>, lines: &[Text]) -> Result<(), AllocError>
    ensures { OnOk result (text.new.items ≡ text.old.items ++ flat_map printed_line lines.now) }
{
    for line in lines {
        add_printed(text, line.as_bytes())?;
    }
    Ok(())
}

// The text of lines as they are printed. If there are more than ten, it has the first nine, and two
// dots instead of the others.
fn printed(alloc: Global, lines: &[Text]) -> Result<Vec<u8>, AllocError>
    ensures { IfOk result (λ text. text.items ≡ text_of_at_most_ten_lines lines.now) }
{
    let mut text = Vec::new(alloc);
    if lines.len() > MOST_LINES {
        add_all_printed(&mut text, &lines[..MOST_LINES - 1])?;
        add_printed(&mut text, b"..")?;
        return Ok(text);
    }
    add_all_printed(&mut text, lines)?;
    Ok(text)
}

/// The lines of a refutation, if one was found, or else of the entries of world that are no
/// conflicts, as they are printed.
pub(crate) fn explanation(
    alloc: Global,
    sources: &Sources<'_>,
    found: &Option<Refutation>,
) -> Result<Vec<u8>, AllocError>
    // The world is the one with which the pool was sealed.
    requires { sources.now.world.now ≡ sources.now.pool.now.world }
    ensures { IfOk result (λ text. text.items ≡ explanation_text sources.now.pool.now
        sources.now.listed.now sources.now.repositories.now found.now) }
{
    match found {
        None => printed(alloc, &world_lines(alloc, sources)?),
        Some(refutation) => printed(alloc, &refutation_lines(alloc, sources, refutation)?),
    }
}
