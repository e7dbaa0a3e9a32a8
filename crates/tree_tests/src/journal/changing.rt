//! The two example changes of several files that the rows make by a `Stage` of `journal_core`. Both
//! remove the file `x` and write the file `y`, whose one byte is `2`. The second change also writes
//! the file `z`, whose one byte is `3`. The calls of a stage are in `docs/crash-safety.md`, "A
//! change of several files", in the table of its steps.
ghost use Rattle.std.specs.Prelude.{◌≡◌, ◌<◌, ◌+◌, [], ◌∷◌, ◌++◌, false, codes, length, IfOk, IfSome, OnOk};
ghost use Rattle.journal_core.specs.Staged.{new_stage_of_removals_and_writes};

use base_core::{Disk, Name, Names};
use journal_core::{Stage, apply_all};
use journal_recovery::recover;
use row_lines::{Answer, value_named};
use std::alloc::{AllocError, Global};
use tree_memory::MemoryTree;

/// Which of the two changes a row makes.
#[derive(Clone, Copy)]
pub enum StagedChange {
    /// The change removes the file `x` and writes the file `y`.
    OneWrite,
    /// The change removes the file `x` and writes the files `y` and `z`.
    TwoWrites,
}

/// The progress of a change, as its calls have reported it.
#[derive(Clone, Copy)]
pub enum Reached {
    /// A call has failed before the commit of the journal entry (intent) was reported.
    Nothing,
    /// The commit of the journal entry (intent) was reported, and a later call has failed.
    Published,
    /// All removals and moves of the change are done, and its journal entry is removed.
    Finished,
}

/// The change that the word `one` or `two` of a row names; None for another word.
pub(crate) fn change_named(word: &[u8]) -> Option<StagedChange> {
    value_named(
        &[
            (b"one", StagedChange::OneWrite),
            (b"two", StagedChange::TwoWrites),
        ],
        word,
    )
}

/// Adds the word for the progress of a change to the answer.
pub(crate) fn add_reached(answer: &mut Answer, reached: Reached) {
    answer.add_word(match reached {
        Reached::Nothing => b"nothing",
        Reached::Published => b"published",
        Reached::Finished => b"finished",
    })
}

/// Recovers the tree, makes the change, and returns how far the change came. This is `Nothing` if
/// the recovery fails, or if memory runs out before the change begins.
pub(crate) fn run_change(alloc: Global, change: StagedChange, tree: &mut MemoryTree) -> Reached {
    if recover(alloc, tree).is_err() {
        return Reached::Nothing;
    }
    match change {
        StagedChange::OneWrite => run_one_write(alloc, tree),
        StagedChange::TwoWrites => run_two_writes(alloc, tree),
    }
}

/// Makes the change that removes `x` and writes `y`, and returns how far it came.
fn run_one_write(alloc: Global, tree: &mut MemoryTree) -> Reached {
    let Ok(Some(mut stage)) = begin_one_write(alloc) else {
        return Reached::Nothing;
    };
    if stage_file(&mut stage, tree, b"2").is_err() {
        return Reached::Nothing;
    }
    commit(&mut stage, tree)
}

/// Makes the change that removes `x` and writes `y` and `z`, and returns how far it came.
fn run_two_writes(alloc: Global, tree: &mut MemoryTree) -> Reached {
    let Ok(Some(mut stage)) = begin_two_writes(alloc) else {
        return Reached::Nothing;
    };
    if stage_file(&mut stage, tree, b"2").is_err() || stage_file(&mut stage, tree, b"3").is_err() {
        return Reached::Nothing;
    }
    commit(&mut stage, tree)
}

// ---- the parts of a change

/// The stage of the change that removes `x` and writes `y`. No file is staged so far.
fn begin_one_write(alloc: Global) -> Result<Option<Stage>, AllocError>
    // The stage is new, with these removals and writes.
    ensures { IfOk result (λ found. IfSome found
        (λ stage. stage ≡ new_stage_of_removals_and_writes (codes "x" ∷ []) (codes "y" ∷ []))) }
{
    let Some(removals) = one_name(alloc, b"x")? else {
        return Ok(None);
    };
    let Some(writes) = one_name(alloc, b"y")? else {
        return Ok(None);
    };
    match Stage::begin(alloc, &removals, &writes) {
        Ok(stage) => Ok(Some(stage)),
        Err(_) => Ok(None),
    }
}

/// The stage of the change that removes `x` and writes `y` and `z`. No file is staged so far.
fn begin_two_writes(alloc: Global) -> Result<Option<Stage>, AllocError>
    // The stage is new, with these removals and writes.
    ensures { IfOk result (λ found. IfSome found
        (λ stage. stage ≡ new_stage_of_removals_and_writes (codes "x" ∷ [])
        (codes "y" ∷ codes "z" ∷ []))) }
{
    let Some(removals) = one_name(alloc, b"x")? else {
        return Ok(None);
    };
    let Some(writes) = one_name(alloc, b"y")? else {
        return Ok(None);
    };
    let Some(writes) = one_more_name(alloc, writes, b"z")? else {
        return Ok(None);
    };
    match Stage::begin(alloc, &removals, &writes) {
        Ok(stage) => Ok(Some(stage)),
        Err(_) => Ok(None),
    }
}

/// A list with this one name; None if the bytes are no valid name.
fn one_name(alloc: Global, bytes: &[u8]) -> Result<Option<Names>, AllocError>
    // The list has exactly this name.
    ensures { IfOk result (λ found. IfSome found (λ names. names ≡ bytes.now ∷ [])) }
{
    let Some(name) = Name::read(alloc, bytes)? else {
        return Ok(None);
    };
    let mut names = Names::new(alloc);
    names.push(name)?;
    Ok(Some(names))
}

/// The list `names` with one name more at its end; None if the bytes are no valid name.
fn one_more_name(alloc: Global, names: Names, bytes: &[u8]) -> Result<Option<Names>, AllocError>
    // The list has this name after the given ones.
    ensures { IfOk result (λ found. IfSome found (λ more. more ≡ names ++ bytes.now ∷ [])) }
{
    let Some(name) = Name::read(alloc, bytes)? else {
        return Ok(None);
    };
    let mut names = names;
    names.push(name)?;
    Ok(Some(names))
}

/// Stages the file of the next write, with these bytes.
fn stage_file(stage: &mut Stage, tree: &mut MemoryTree, bytes: &[u8]) -> Result<(), Disk>
    // No staged file is begun and not yet ended.
    requires closed { stage.old.is_open ≡ false }
    // A write is left whose file is not staged.
    requires more { stage.old.staged < length stage.old.intent.writes }
    // On Ok, one more file is staged.
    ensures { OnOk result
        (stage.new ≡ record stage.old { staged = stage.old.staged + 1; is_open = false }) }
{
    stage.file_begin(tree)?;
    stage.file_append(tree, bytes)?;
    stage.file_end(tree)
}

/// Commits the journal entry of the change, does all its actions, and removes the entry. Returns
/// how far the change came.
fn commit(stage: &mut Stage, tree: &mut MemoryTree) -> Reached
    // No staged file is begun and not yet ended.
    requires closed { stage.old.is_open ≡ false }
    // All writes have their staged files.
    requires all { stage.old.staged ≡ length stage.old.intent.writes }
{
    if stage.publish(tree).is_err() {
        return Reached::Nothing;
    }
    if apply_all(stage, tree).is_err() || stage.finish(tree).is_err() {
        return Reached::Published;
    }
    Reached::Finished
}
