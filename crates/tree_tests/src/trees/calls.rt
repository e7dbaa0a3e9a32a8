//! Calls on a tree in memory that write: whether each succeeds, and what is in the tree then. The
//! rules are in `docs/crash-safety.md`, "What each call does" and "Misuses, faults and counts".
use crate::tree_words::{add_tree, long_at};
use base_core::{Disk, Name, Tree, Words};
use row_lines::{Answer, word_at};
use std::alloc::{AllocError, Global};
use tree_memory::MemoryTree;

/// The calls that change the file of a name, or sync it.
#[derive(Clone, Copy)]
pub(crate) enum Call {
    Create,
    Append,
    Sync,
    Remove,
    Rename,
}

/// Makes a call on the tree, for a file. Adds whether the call succeeded, how many maps of names
/// the tree has then, and the files that are then in the tree.
pub(crate) fn add_call(
    alloc: Global,
    tree: &mut MemoryTree,
    call: Call,
    name: &Name,
    argument: &[u8],
    answer: &mut Answer,
) -> Result<(), AllocError> {
    let outcome = match call {
        Call::Create => tree.create(name),
        Call::Append => tree.append(name, argument),
        Call::Sync => tree.sync(name),
        Call::Remove => tree.remove(name),
        Call::Rename => match Name::read(alloc, argument)? {
            Some(to) => tree.rename(name, &to),
            // A rename to a text that is no name counts as failed.
            None => Err(Disk),
        },
    };
    add_written(alloc, tree, outcome, answer)
}

/// Adds whether a call succeeded, the number of the tree's maps of names, and the files of the
/// tree.
pub(crate) fn add_written(
    alloc: Global,
    tree: &MemoryTree,
    outcome: Result<(), Disk>,
    answer: &mut Answer,
) -> Result<(), AllocError> {
    answer.push(ok_or_failed(outcome));
    // Adds the space before the number.
    answer.add_word(b"");
    answer.add_number(u128::from(tree.maps()));
    add_tree(alloc, tree, answer)
}

/// `ok` if a call succeeded, and else `failed`: the call was a misuse (an invalid call), or was
/// planned to fail.
pub(crate) fn ok_or_failed(outcome: Result<(), Disk>) -> &'static [u8] {
    match outcome {
        Ok(()) => b"ok",
        Err(_) => b"failed",
    }
}

/// Answers `turns TIMES HERE THERE`: renames a file from HERE to THERE and back, TIMES times,
/// whether or not the renames succeed; adds nothing.
pub(crate) fn make_turns(
    alloc: Global,
    tree: &mut MemoryTree,
    words: &Words,
) -> Result<(), AllocError> {
    let Some(here) = Name::read(alloc, word_at(words, 2))? else {
        return Ok(());
    };
    let Some(there) = Name::read(alloc, word_at(words, 3))? else {
        return Ok(());
    };
    turn(tree, &here, &there, long_at(words, 1));
    Ok(())
}

/// Renames a file from `here` to `there` and back, this many times.
fn turn(tree: &mut MemoryTree, here: &Name, there: &Name, times: u64) {
    for _ in 0..times {
        let _ = tree.rename(here, there);
        let _ = tree.rename(there, here);
    }
}
