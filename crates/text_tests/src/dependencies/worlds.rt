//! Answers questions about dependencies, worlds and lists of repositories: how texts are read and
//! written, what meets a dependency, which line is the first bad one, and edits of world. The rules
//! are in `docs/formats.md`, "Dependencies", "World" and "Repositories".

use crate::add_made;
use base_core::Words;
use dep_core::{Dep, Repos, ReposFault, World, WorldFault, dep_of, dep_text, read_dep};
use row_lines::{Answer, number_of, word_at};
use std::alloc::{AllocError, Global};
use version_core::Version;

/// Answers `world TEXT`: the text of world after it was read and written again, or its first bad
/// line.
pub(crate) fn add_world(alloc: Global, text: &[u8], answer: &mut Answer) {
    match World::read(alloc, text) {
        Ok(world) => add_made(world.text(alloc), answer),
        Err(WorldFault::Bad { line }) => add_bad_line(line, answer),
        Err(WorldFault::Memory) => answer.add_text(Err(AllocError)),
    }
}

// Adds to the answer the number of the first bad line.
fn add_bad_line(line: u64, answer: &mut Answer) {
    answer.push(b"line ");
    answer.add_number(u128::from(line))
}

/// Answers `edits WORLD EDIT ..`: makes the edits one after another, and adds the result of each
/// (`add_edit`).
pub(crate) fn add_edits(alloc: Global, words: &Words, answer: &mut Answer) {
    let Ok(mut world) = World::read(alloc, word_at(words, 1)) else {
        answer.push(b"no world");
        return;
    };
    for i in 2..words.len() {
        add_edit(alloc, &mut world, words.word(i), answer);
    }
}

// Makes one edit of world, or adds to the answer what an edit asks for (`add_result`). `+TEXT` adds
// a dependency, and has no answer.
fn add_edit(alloc: Global, world: &mut World, edit: &[u8], answer: &mut Answer) {
    let [b'+', text @ ..] = edit else {
        // Each other edit has an answer, which is a word of its own.
        answer.add_word(b"");
        add_result(alloc, world, edit, answer);
        return;
    };
    // A text that is no dependency changes nothing.
    if let Some(dep) = read_dep(text) {
        if let Err(fault) = world.add(&dep) {
            answer.add_text(Err(fault));
        }
    }
}

// Adds the result of an edit that has one. `-NAME` removes the entry of this name, and the answer
// is whether there was one. `#` asks for the number of entries, `?INDEX` for an entry (counted from
// 0, and given in digits), and `=` for the text of world.
fn add_result(alloc: Global, world: &mut World, edit: &[u8], answer: &mut Answer) {
    match edit {
        [b'-', name @ ..] => answer.add_yes_or_no(world.del(name)),
        [b'#'] => answer.add_number(world.len() as u128),
        [b'?', index @ ..] => match number_of(index) {
            Some(i) if i < world.len() as u128 => {
                add_dependency(alloc, Some(world.entry(i as usize)), answer)
            }
            _ => answer.push(b"none"),
        },
        _ => add_made(world.text(alloc), answer),
    }
}

/// Answers `repositories TEXT`: adds the tag and the path of each repository in a list, or the
/// first bad line of the list.
pub(crate) fn add_repositories(alloc: Global, text: &[u8], answer: &mut Answer) {
    match Repos::read(alloc, text) {
        Ok(repos) => {
            for i in 0..repos.len() {
                answer.add_word(b"@");
                if let Some(tag) = repos.tag(i) {
                    answer.push(tag);
                }
                answer.add_word(repos.path(i).as_bytes());
            }
        }
        Err(ReposFault::Bad { line }) => add_bad_line(line, answer),
        Err(ReposFault::Memory) => answer.add_text(Err(AllocError)),
    }
}

/// Answers `dependency TEXT` and `value NAME VERSION MATCH`: adds the text of the dependency, or
/// `none`.
pub(crate) fn add_dependency(alloc: Global, dep: Option<Dep<'_>>, answer: &mut Answer) {
    match dep {
        Some(dep) => add_made(dep_text(alloc, &dep), answer),
        None => answer.push(b"none"),
    }
}

/// The dependency that has these three fields in a package: name, version and match bits, which are
/// given in digits.
pub(crate) fn dependency_of_fields<'w>(
    name: &'w [u8],
    version: &'w [u8],
    matching: &[u8],
) -> Option<Dep<'w>> {
    let matching = u64::try_from(number_of(matching)?).ok()?;
    dep_of(name, version, matching)
}

/// Answers `meets DEPENDENCY NAME VERSION`: adds whether a package with this name and this version
/// meets the dependency.
pub(crate) fn add_meeting(dependency: &[u8], name: &[u8], version: &[u8], answer: &mut Answer) {
    match read_dep(dependency) {
        Some(dep) => answer.add_yes_or_no(dep.met_by(name, Version::read(version).as_ref())),
        None => answer.push(b"no dependency"),
    }
}
