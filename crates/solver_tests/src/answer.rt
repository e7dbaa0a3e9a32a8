//! The questions of a row, and their answers as texts. The README of this crate lists the
//! questions; the rules for right answers are in `docs/selection.md`.
ghost use Rattle.std.specs.Prelude.{◌≡◌, IfOk};

use crate::row::{Row, split_word};
use adb_schema::{Checked, IndexView, Which, shape};
use adb_view::Adb;
use base_core::Words;
use dep_core::{World, read_dep};
use pool_core::{CandId, Need, Pool, PoolFault, Sealed, Upgrade};
use row_lines::{Bytes, value_named};
use solve_core::solve;
use std::alloc::{AllocError, Global};

/// The most names that a command upgrades in a row; with more the answer is `no row`.
const MOST_NAMES: usize = 1000;

/// The answer if a text of the row cannot be read, or the question is unknown.
const NO_ROW: &[u8] = b"no row";

/// Why a row has no answer.
#[derive(Clone, Copy)]
enum RowFault {
    /// Out of memory.
    Memory,
    /// The pool has too many candidates: this many, as `pool_core` reports.
    TooMany(u64),
    /// The question is unknown, or a line of the row cannot be parsed.
    Text,
}

impl From<AllocError> for RowFault {
    // Out of memory, as the reason why a row has no answer.
    fn from(_: AllocError) -> RowFault {
        RowFault::Memory
    }
}

impl From<PoolFault> for RowFault {
    // An error of the pool of candidates, as the reason why a row has no answer.
    fn from(fault: PoolFault) -> RowFault {
        match fault {
            PoolFault::TooMany { count } => RowFault::TooMany(count),
            PoolFault::Memory => RowFault::Memory,
        }
    }
}

/// The kinds of questions; the README of this crate has a row for each.
#[derive(Clone, Copy)]
enum Question {
    /// `bytes`: the number of bytes of the repository indexes.
    Bytes,
    /// `packages`: the number of packages in the repository indexes.
    Packages,
    /// `candidates`: the number of candidates in the pool.
    Candidates,
    /// `twice`: the numbers of candidates in two equal pools.
    Twice,
    /// `offers NAME`: the candidates that have or provide the name.
    Offers,
    /// `options DEPENDENCY`: the candidates for the dependency, best first.
    Options,
    /// `named NAME`: the candidates for a name that an install-if asks for.
    Named,
    /// `select`: the candidates of the preferred selection.
    Select,
    /// `count`: the number of candidates of the preferred selection.
    Count,
}

/// For each kind of question, the first word of such a question.
const QUESTIONS: [(&[u8], Question); 9] = [
    (b"bytes", Question::Bytes),
    (b"packages", Question::Packages),
    (b"candidates", Question::Candidates),
    (b"twice", Question::Twice),
    (b"offers", Question::Offers),
    (b"options", Question::Options),
    (b"named", Question::Named),
    (b"select", Question::Select),
    (b"count", Question::Count),
];

/// A question: its kind, and the name or the dependency that follows it.
#[derive(Clone, Copy)]
struct Query<'q> {
    /// The kind of the question.
    question: Question,
    /// The name or the dependency that follows the question's word.
    rest: &'q [u8],
}

/// The command of a row: its world, and the names that it upgrades.
#[derive(Clone, Copy)]
struct Command<'a> {
    /// The world of the row: the dependencies that the user asks for.
    world: &'a World,
    /// The names of the packages to upgrade.
    upgrade: Upgrade<'a>,
}

/// The answer to a question, computed as often as the row says, or why there is none.
pub(crate) fn answer(alloc: Global, row: &Row<'_>, query: &[u8]) -> Result<Vec<u8>, AllocError> {
    let mut text = Bytes::new(alloc);
    match add_answer(alloc, row, query, &mut text) {
        Ok(()) => {}
        Err(RowFault::Memory) => return Err(AllocError),
        Err(RowFault::Text) => text.push(NO_ROW),
        Err(RowFault::TooMany(count)) => {
            text.push_text(format!(in alloc; "{count} candidates are too many"))
        }
    }
    text.finish()
}

// Reads the question, world and the names to upgrade. Computes the answer as often as the row says
// (`times N`), and leaves the last answer in `text`.
fn add_answer(
    alloc: Global,
    row: &Row<'_>,
    query: &[u8],
    text: &mut Bytes,
) -> Result<(), RowFault> {
    let (word, rest) = split_word(query);
    let Some(question) = value_named(&QUESTIONS, word) else {
        return Err(RowFault::Text);
    };
    let Ok(world) = World::read(alloc, row.world) else {
        return Err(RowFault::Text);
    };
    let upgraded = words_of(alloc, row.upgraded)?;
    let command = Command {
        world: &world,
        upgrade: match row.upgraded {
            b"" => Upgrade::Nothing,
            b"all" => Upgrade::All,
            _ => Upgrade::Listed(&upgraded),
        },
    };
    for _ in 0..row.times {
        *text = Bytes::new(alloc);
        add_one_answer(alloc, row, command, Query { question, rest }, text)?;
    }
    Ok(())
}

// Computes the answer once, and appends it to `text`. The questions `bytes` and `packages` need no
// pool of candidates, and `twice` needs two pools.
fn add_one_answer(
    alloc: Global,
    row: &Row<'_>,
    command: Command<'_>,
    query: Query<'_>,
    text: &mut Bytes,
) -> Result<(), RowFault> {
    match query.question {
        Question::Bytes => add_number(alloc, byte_count(row), text),
        Question::Packages => add_number(alloc, package_count(alloc, row)?, text),
        Question::Twice => return add_two_counts(alloc, row, command, text),
        _ => return add_answer_of_row(alloc, row, command, query, text),
    }
    Ok(())
}

// Makes the pool of candidates of the row, and appends the answer about this pool.
fn add_answer_of_row(
    alloc: Global,
    row: &Row<'_>,
    command: Command<'_>,
    query: Query<'_>,
    text: &mut Bytes,
) -> Result<(), RowFault> {
    let pool = sealed(alloc, row, command.world, command.upgrade)?;
    Ok(add_answer_of_pool(alloc, &pool, command.world, query, text)?)
}

// How many bytes the payloads of the repositories' indexes have.
fn byte_count(row: &Row<'_>) -> u128 {
    let mut count = 0u128;
    for repository in &row.repositories {
        count = count.saturating_add(repository.payload.len() as u128);
    }
    count
}

// How many packages the repositories have, after their indexes were tested.
fn package_count(alloc: Global, row: &Row<'_>) -> Result<u128, RowFault> {
    let mut count = 0u128;
    for repository in &row.repositories {
        let Some(view) = view_of(alloc, &repository.payload) else {
            return Err(RowFault::Text);
        };
        count = count.saturating_add(view.packages().len() as u128);
    }
    Ok(count)
}

// Appends the numbers of candidates of two equal pools, which are in memory at once.
fn add_two_counts(
    alloc: Global,
    row: &Row<'_>,
    command: Command<'_>,
    text: &mut Bytes,
) -> Result<(), RowFault> {
    let first = sealed(alloc, row, command.world, command.upgrade)?;
    let second = sealed(alloc, row, command.world, command.upgrade)?;
    add_counts(alloc, first.len(), second.len(), text);
    Ok(())
}

// Appends two numbers in decimal digits, with a space between them.
fn add_counts(alloc: Global, first: usize, second: usize, text: &mut Bytes) {
    text.push_text(format!(in alloc; "{first} {second}"))
}

// ---- the pool

// The pool of all packages of the row, with the world and the names to upgrade. The clause says
// that the world of the pool is the given one.
fn sealed<'a>(
    alloc: Global,
    row: &'a Row<'a>,
    world: &'a World,
    upgrade: Upgrade<'a>,
) -> Result<Sealed<'a>, RowFault>
    ensures { IfOk result (λ sealed. world.entry.now ≡ sealed.world) }
{
    let mut pool = Pool::new(alloc);
    add_repositories(alloc, &mut pool, row)?;
    if let Some(payload) = &row.installed {
        add_installed(alloc, &mut pool, payload)?;
    }
    Ok(pool.seal(world, upgrade)?)
}

// Adds the packages of the row's repositories to the pool.
fn add_repositories<'a>(
    alloc: Global,
    pool: &mut Pool<'a>,
    row: &'a Row<'a>,
) -> Result<(), RowFault> {
    for repository in &row.repositories {
        let Some(view) = view_of(alloc, &repository.payload) else {
            return Err(RowFault::Text);
        };
        pool.add_index(view, repository.number, repository.tag)?;
    }
    Ok(())
}

// Adds the packages of an index to the pool, as the installed ones.
fn add_installed<'a>(
    alloc: Global,
    pool: &mut Pool<'a>,
    payload: &'a [u8],
) -> Result<(), RowFault> {
    let Some(view) = view_of(alloc, payload) else {
        return Err(RowFault::Text);
    };
    let packages = view.packages();
    for i in 0..packages.len() {
        // Packages of the list count from 1.
        pool.add_installed(packages.get(i + 1))?;
    }
    Ok(())
}

// The view of a payload as an index; None if the payload fails a test.
fn view_of<'a>(alloc: Global, payload: &'a [u8]) -> Option<IndexView<'a>> {
    let adb = Adb::new(payload).ok()?;
    let shaped = shape(adb, Which::Index).ok()?;
    let checked = Checked::new(alloc, shaped).ok()?;
    Some(checked.index())
}

// The names of a row that are to be upgraded, as words; `text` has them with spaces between them.
fn words_of(alloc: Global, text: &[u8]) -> Result<Words, RowFault> {
    let mut words = Words::new(alloc);
    for word in text.split(|byte| *byte == b' ') {
        if words.len() >= MOST_NAMES {
            return Err(RowFault::Text);
        }
        words.push(word)?;
    }
    Ok(words)
}

// ---- answers of the pool

// Appends the answer to a question about a pool of candidates. The given world must be that of the
// pool.
fn add_answer_of_pool(
    alloc: Global,
    pool: &Sealed<'_>,
    world: &World,
    query: Query<'_>,
    text: &mut Bytes,
) -> Result<(), AllocError>
    requires { world.now ≡ pool.now.world }
{
    match query.question {
        Question::Offers => add_candidates(alloc, pool, pool.offers(query.rest), text),
        Question::Options => match read_dep(query.rest) {
            Some(dep) => return add_options(alloc, pool, &Need::Entry(dep), text),
            None => text.push(NO_ROW),
        },
        Question::Named => return add_options(alloc, pool, &Need::Named(query.rest), text),
        Question::Select => return add_selection(alloc, pool, world, text),
        Question::Count => match solve(alloc, pool, world)? {
            Some(trace) => add_number(alloc, trace.len() as u128, text),
            None => text.push(b"none"),
        },
        // The question `candidates`.
        _ => add_number(alloc, pool.len() as u128, text),
    }
    Ok(())
}

// Appends the candidates for a need (a dependency or a name that an install-if asks for), best
// first.
fn add_options(
    alloc: Global,
    pool: &Sealed<'_>,
    need: &Need<'_>,
    text: &mut Bytes,
) -> Result<(), AllocError> {
    let options = pool.options(alloc, need)?.into_ids();
    add_candidates(alloc, pool, &options, text);
    Ok(())
}

// Appends the candidates of the preferred selection in the order in which the solver chose them, or
// `none`. The given world must be that of the pool.
fn add_selection(
    alloc: Global,
    pool: &Sealed<'_>,
    world: &World,
    text: &mut Bytes,
) -> Result<(), AllocError>
    requires { world.now ≡ pool.now.world }
{
    let Some(trace) = solve(alloc, pool, world)? else {
        text.push(b"none");
        return Ok(());
    };
    for i in 0..trace.len() {
        add_candidate(alloc, pool, trace.get(i), text);
    }
    Ok(())
}

// Appends these candidates, in their order.
fn add_candidates(alloc: Global, pool: &Sealed<'_>, ids: &[CandId], text: &mut Bytes) {
    for id in ids {
        add_candidate(alloc, pool, *id, text);
    }
}

// Appends the name and the version of a candidate, and after `/` the number of its repository
// unless the number is 1. The number 0 stands for an installed package that no repository has.
fn add_candidate(alloc: Global, pool: &Sealed<'_>, id: CandId, text: &mut Bytes) {
    if !text.as_slice().is_empty() {
        text.push(b" ");
    }
    // The pool has no candidate at this place; no question gives such a place.
    let Some(details) = pool.at(id) else {
        return text.push(b"none of the pool");
    };
    text.push(details.name());
    text.push(b"-");
    if let Some(version) = details.version() {
        text.push(version.text());
    }
    let number = details.repo().unwrap_or(0);
    if number != 1 {
        text.push_text(format!(in alloc; "/{number}"));
    }
}

// ---- texts

// Appends the decimal digits of a number.
fn add_number(alloc: Global, number: u128, text: &mut Bytes) {
    text.push_text(format!(in alloc; "{number}"))
}

/// Appends these parts, one after another.
pub(crate) fn add_parts(parts: &[&[u8]], text: &mut Bytes) {
    for part in parts {
        text.push(part);
    }
}
