//! The texts of packages, and of what there is of a name, in the lines that explain why nothing can
//! be selected. They are listed in `specs/Lines.antt`.
ghost use Rattle.std.specs.Prelude.{◌≡◌, ◌++◌, [], ◌&&◌, ◌+◌, false, Some, OnOk, IfOk, option_copied, option_map, find, unwrap_or, bytes_eq, map, take};
ghost use Rattle.std.specs.Option.{option_map_or};
ghost use Rattle.std.specs.List.{list_any};
ghost use Rattle.dep_core.specs.DependencyText.{dep_text};
ghost use Rattle.dep_core.specs.Meets.{dependency};
ghost use Rattle.search_tables.specs.candidate_core.Candidates.{is_tag_used_in_world, is_allowed_by_tags_of_world};
ghost use Rattle.unmet_world.specs.Exclusion.{is_conflict_met_by};
ghost use Rattle.unmet_world.specs.Lines.{origin_text, name_and_version_text, candidate_text, candidate_text_at, is_named, is_same_text, is_entry_of_file, entry_origin, entry_origin_text, dependency_owner_text, world_conflict_text, world_conflict_reason_text, offer_text, offer_text_at, with_text_once, with_texts, joined_texts, most_shown_offers, dots_if, is_like_file, no_package_text, note_on_file, offered_text, offers_line_of_name};

use crate::exclusion::is_conflict_met_by;
use crate::refutation::{Owner, candidate};
use crate::similar::similar_name;
use base_core::Text;
use dep_core::{Dep, Repos, World, dep_text, has_slash};
use search_tables::{CandId, Details, Sealed};
use std::alloc::{AllocError, Global};

/// How many candidates of a name are shown.
const MOST_OFFERS: usize = 16;

/// What the lines of an explanation are made of.
#[derive(Clone, Copy)]
pub(crate) struct Sources<'a> {
    /// The candidates.
    pub(crate) pool: &'a Sealed<'a>,
    /// The world that the pool was sealed with.
    pub(crate) world: &'a World,
    /// World as its file lists it, before the command changes it.
    pub(crate) listed: &'a World,
    /// The repositories, in the order of their numbers.
    pub(crate) repositories: &'a Repos,
}

// ---- packages

// Where a candidate is from: the path of the repository with this number, counted from 1; None: the
// database. Empty if there is no such repository.
fn origin(repositories: &Repos, number: Option<u64>) -> &[u8]
    ensures { result.now ≡ origin_text repositories.now number }
{
    let Some(number) = number else {
        return b"installed";
    };
    let place = number.saturating_sub(1) as usize;
    if place >= repositories.len() {
        return b"";
    }
    repositories.path(place).as_bytes()
}

// The text of a package's version; empty if this is no version.
fn version_text<'a>(details: &Details<'a>) -> &'a [u8]
    ensures { result.now ≡ unwrap_or details.now.version [] }
{
    match details.version() {
        None => b"",
        Some(version) => version.text(),
    }
}

// Adds the name and the version of a package.
fn add_package(text: &mut Vec<u8>, details: &Details<'_>) -> Result<(), AllocError>
    ensures { OnOk result (text.new.items ≡ text.old.items ++ name_and_version_text details.now) }
{
    text.extend_from_slice(details.name())?;
    text.extend_from_slice(b"-")?;
    text.extend_from_slice(version_text(details))
}

/// Adds the name and the version of the candidate at a place, and where it is from; nothing if
/// there is no such candidate.
pub(crate) fn add_candidate_at(
    text: &mut Vec<u8>,
    sources: &Sources<'_>,
    id: CandId,
) -> Result<(), AllocError>
    ensures { OnOk result (text.new.items ≡ text.old.items
        ++ candidate_text_at sources.now.pool.now sources.now.repositories.now id) }
{
    let Some(details) = sources.pool.at(id) else {
        return Ok(());
    };
    add_package(text, &details)?;
    text.extend_from_slice(b" (")?;
    text.extend_from_slice(origin(sources.repositories, details.repo()))?;
    text.extend_from_slice(b")")
}

/// Adds the text of a dependency.
pub(crate) fn add_dep(text: &mut Vec<u8>, dep: &Dep<'_>) -> Result<(), AllocError>
    ensures { OnOk result (text.new.items ≡ text.old.items ++ dep_text (dependency dep.now)) }
{
    let alloc = *text.allocator();
    text.extend_from_slice(dep_text(alloc, dep)?.as_bytes())
}

// ---- entries of world

// The entry of world that has a name, if there is one.
fn entry_named<'a>(world: &'a World, name: &[u8]) -> Option<Dep<'a>>
    ensures { option_map dependency result ≡ find (is_named name.now) world.now }
{
    for i in 0..world.len() {
        let dep = world.entry(i);
        if name == dep.name {
            return Some(dep);
        }
    }
    None
}

// Whether an entry of world is one that the file of world lists, with the same text.
fn is_entry_of_file(alloc: Global, listed: &World, dep: &Dep<'_>) -> Result<bool, AllocError>
    ensures { IfOk result (λ is. is ≡ is_entry_of_file listed.now (dependency dep.now)) }
{
    match entry_named(listed, dep.name) {
        None => Ok(false),
        Some(entry) => {
            let text = dep_text(alloc, dep)?;
            let listed_text = dep_text(alloc, &entry)?;
            Ok(text.as_bytes() == listed_text.as_bytes())
        }
    }
}

// Adds where an entry of world is from: the file of world, which lists the entries `listed`, or the
// command.
fn add_entry_origin(text: &mut Vec<u8>, listed: &World, dep: &Dep<'_>) -> Result<(), AllocError>
    ensures { OnOk result (text.new.items ≡ text.old.items
        ++ entry_origin_text listed.now (dependency dep.now)) }
{
    let alloc = *text.allocator();
    if is_entry_of_file(alloc, listed, dep)? {
        text.extend_from_slice(b"etc/apk/world")
    } else {
        text.extend_from_slice(b"this command")
    }
}

/// Adds who has the dependency `dep`: the origin of this entry of world, or a candidate.
pub(crate) fn add_owner(
    text: &mut Vec<u8>,
    sources: &Sources<'_>,
    owner: Owner,
    dep: &Dep<'_>,
) -> Result<(), AllocError>
    ensures { OnOk result (text.new.items ≡ text.old.items
        ++ dependency_owner_text sources.now.pool.now sources.now.listed.now
        sources.now.repositories.now owner (dependency dep.now)) }
{
    match owner {
        Owner::World => add_entry_origin(text, sources.listed, dep),
        Owner::Package(id) => add_candidate_at(text, sources, candidate(id)),
    }
}

// ---- what there is of a name

// Whether an entry of world uses a tag.
fn is_tag_used_in_world(world: &World, tag: &[u8]) -> bool
    ensures { result ≡ is_tag_used_in_world world.now tag.now }
{
    for i in 0..world.len() {
        if has_tag(&world.entry(i), tag) {
            return true;
        }
    }
    false
}

// Whether a dependency has a tag.
fn has_tag(dep: &Dep<'_>, tag: &[u8]) -> bool
    ensures { result ≡ option_map_or (bytes_eq tag.now) (dependency dep.now).tag false }
{
    match dep.tag {
        None => false,
        Some(own) => tag == own,
    }
}

// Whether a candidate is allowed: installed, or of a repository without a tag or with one that
// world uses.
fn is_allowed_by_tags_of_world(world: &World, details: &Details<'_>) -> bool
    ensures { result ≡ is_allowed_by_tags_of_world world.now details.now }
{
    if details.is_installed() || details.repo().is_none() {
        return true;
    }
    match details.tag() {
        None => true,
        Some(tag) => is_tag_used_in_world(world, tag),
    }
}

// The first conflict of world that a candidate meets, which bars the candidate.
fn bar<'a>(world: &'a World, details: &Details<'_>) -> Option<Dep<'a>>
    ensures { option_map dependency result ≡ find (is_conflict_met_by details.now) world.now }
{
    for i in 0..world.len() {
        let dep = world.entry(i);
        if is_conflict_met_by(&dep, details) {
            return Some(dep);
        }
    }
    None
}

// Adds why a candidate may not be selected: its tag, which world does not use, or a conflict of
// world that it meets, with its origin. Adds nothing if it may.
fn add_refusal(
    text: &mut Vec<u8>,
    sources: &Sources<'_>,
    details: &Details<'_>,
) -> Result<(), AllocError>
    ensures { OnOk result (text.new.items ≡ text.old.items
        ++ world_conflict_reason_text sources.now.listed.now sources.now.world.now details.now) }
{
    if !is_allowed_by_tags_of_world(sources.world, details) {
        text.extend_from_slice(b" (tagged @")?;
        text.extend_from_slice(details.tag().unwrap_or(b""))?;
        return text.extend_from_slice(b")");
    }
    let Some(dep) = bar(sources.world, details) else {
        return Ok(());
    };
    text.extend_from_slice(b" (")?;
    add_entry_origin(text, sources.listed, &dep)?;
    text.extend_from_slice(b" has ")?;
    add_dep(text, &dep)?;
    text.extend_from_slice(b")")
}

// The text of the candidate at a place, which offers `name`: its version, or name and version if it
// has another name; and why it may not be selected, if it may not. Empty if no candidate is there.
fn offer_at(
    alloc: Global,
    sources: &Sources<'_>,
    name: &[u8],
    id: CandId,
) -> Result<Text, AllocError>
    // The world is the one with which the pool was sealed.
    requires { sources.now.world.now ≡ sources.now.pool.now.world }
    ensures { IfOk result (λ text. text
        ≡ offer_text_at sources.now.pool.now sources.now.listed.now name.now id) }
{
    let mut text = Vec::new(alloc);
    let Some(details) = sources.pool.at(id) else {
        return Ok(Text::from_vec(text));
    };
    if name == details.name() {
        text.extend_from_slice(version_text(&details))?;
    } else {
        add_package(&mut text, &details)?;
    }
    add_refusal(&mut text, sources, &details)?;
    Ok(Text::from_vec(text))
}

/// Adds a text to a list, unless the list has it.
pub(crate) fn add_once(texts: &mut Vec<Text>, text: Text) -> Result<(), AllocError>
    ensures { OnOk result (texts.new.items ≡ with_text_once texts.old.items text) }
{
    if has_text(texts, text.as_bytes()) {
        return Ok(());
    }
    texts.push(text)?;
    Ok(())
}

// Whether a list has this text.
fn has_text(texts: &[Text], text: &[u8]) -> bool
    ensures { result ≡ list_any (bytes_eq text.now) texts.now }
{
    for other in texts {
        if text == other.as_bytes() {
            return true;
        }
    }
    false
}

// The texts of these candidates, which offer a name, each text once.
fn offers(
    alloc: Global,
    sources: &Sources<'_>,
    name: &[u8],
    ids: &[CandId],
) -> Result<Vec<Text>, AllocError>
    // The world is the one with which the pool was sealed.
    requires { sources.now.world.now ≡ sources.now.pool.now.world }
    ensures { IfOk result (λ texts. texts.items ≡ with_texts []
        (map (offer_text_at sources.now.pool.now sources.now.listed.now name.now) ids.now)) }
{
    let mut texts = Vec::new(alloc);
    for id in ids {
        add_once(&mut texts, offer_at(alloc, sources, name, *id)?)?;
    }
    Ok(texts)
}

// Adds texts with commas between them.
fn add_joined(line: &mut Vec<u8>, texts: &[Text]) -> Result<(), AllocError>
    ensures { OnOk result (line.new.items ≡ line.old.items ++ joined_texts texts.now) }
{
    for (i, text) in texts.iter().enumerate() {
        if i > 0 {
            line.extend_from_slice(b", ")?;
        }
        line.extend_from_slice(text.as_bytes())?;
    }
    Ok(())
}

// Adds which candidates offer a name, at most 16 of them; or that no package has the name, if there
// are none.
fn add_offers(
    alloc: Global,
    line: &mut Vec<u8>,
    sources: &Sources<'_>,
    name: &[u8],
    ids: &[CandId],
) -> Result<(), AllocError>
    // The world is the one with which the pool was sealed.
    requires { sources.now.world.now ≡ sources.now.pool.now.world }
    ensures { OnOk result (line.new.items ≡ line.old.items
        ++ offered_text sources.now.pool.now sources.now.listed.now name.now ids.now) }
{
    if ids.is_empty() {
        return add_no_package(line, name, similar_name(sources.pool, name));
    }
    let texts = offers(alloc, sources, name, first_of(ids))?;
    line.extend_from_slice(b"only ")?;
    add_joined(line, &texts)?;
    line.extend_from_slice(dots_if(ids.len() > MOST_OFFERS))
}

// Adds that no package has `name`, and the similar name of a package, if there is one.
fn add_no_package(line: &mut Vec<u8>, name: &[u8], similar: Option<&[u8]>) -> Result<(), AllocError>
    ensures { OnOk result (line.new.items
        ≡ line.old.items ++ no_package_text name.now (option_copied similar.entry)) }
{
    line.extend_from_slice(b"no package")?;
    match similar {
        None => line.extend_from_slice(note_on_file(name)),
        Some(name) => {
            line.extend_from_slice(b"; a similar name is ")?;
            line.extend_from_slice(name)
        }
    }
}

// What a line adds on a name that is like the path of a file; nothing for another name.
fn note_on_file(name: &[u8]) -> &'static [u8]
    ensures { result.now ≡ note_on_file name.now }
{
    if is_like_file(name) {
        b"; a package is given by its name, and not by its file"
    } else {
        b""
    }
}

// Whether a name is like the path of a file of a package: it has a slash, or ends as such files do.
fn is_like_file(name: &[u8]) -> bool
    ensures { result ≡ is_like_file name.now }
{
    has_slash(name) || name.ends_with(b".apk")
}

// The first of these candidates, at most 16: as many as a line shows.
fn first_of(ids: &[CandId]) -> &[CandId]
    ensures { result.now ≡ take most_shown_offers ids.now }
{
    if ids.len() > MOST_OFFERS {
        &ids[..MOST_OFFERS]
    } else {
        ids
    }
}

// The two dots after the shown candidates, if there are more of them.
fn dots_if(more: bool) -> &'static [u8]
    ensures { result.now ≡ dots_if more }
{
    if more { b", .." } else { b"" }
}

/// The line that says which candidates offer a name.
pub(crate) fn offers_line_of_name(
    alloc: Global,
    sources: &Sources<'_>,
    name: &[u8],
) -> Result<Text, AllocError>
    // The world is the one with which the pool was sealed.
    requires { sources.now.world.now ≡ sources.now.pool.now.world }
    ensures { IfOk result (λ line. line
        ≡ offers_line_of_name sources.now.pool.now sources.now.listed.now name.now) }
{
    let mut line = Vec::new(alloc);
    line.extend_from_slice(name)?;
    line.extend_from_slice(b": ")?;
    add_offers(alloc, &mut line, sources, name, sources.pool.offers(name))?;
    Ok(Text::from_vec(line))
}
