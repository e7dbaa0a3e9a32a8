//! The answers to the questions `recover`, `cuts` and `change`: recoveries of given files, also of
//! files that no change of `apk` leaves; journal entries (intents) that are cut off; and changes
//! that are stopped after some calls. The rules are in `docs/crash-safety.md`, "Recovery", the
//! table of what a recovery finds.
use crate::journal::changing::{add_reached, change_named, run_change};
use crate::tree_words::{add_count, add_tree, long_at, put, text_of, tree_of};
use base_core::Words;
use journal_recovery::{RecoverFault, recover};
use row_lines::{Answer, word_at};
use std::alloc::{AllocError, Global};

/// The name of the journal entry (intent).
const INTENT: &[u8] = b"lib/apk/intent";

/// Answers `recover (NAME BYTES)..`: recovers a tree with these files twice. Adds the result of
/// each recovery, each with the number of calls that have written so far; between both it adds the
/// files after the first recovery. The second recovery has nothing to do.
pub(crate) fn add_recovery(
    alloc: Global,
    words: &Words,
    answer: &mut Answer,
) -> Result<(), AllocError> {
    // The files begin after the word `recover`.
    let mut tree = tree_of(alloc, words, 1)?;
    add_result(answer, recover(alloc, &mut tree));
    add_count(answer, b"writes", tree.writes());
    add_tree(alloc, &tree, answer)?;
    answer.add_word(b"again");
    add_result(answer, recover(alloc, &mut tree));
    add_count(answer, b"writes", tree.writes());
    Ok(())
}

/// Adds the word by which answers name the result of a recovery.
fn add_result(answer: &mut Answer, found: Result<(), RecoverFault>) {
    answer.add_word(match found {
        Ok(()) => b"ok",
        Err(RecoverFault::IntentBad(_)) => b"bad",
        Err(RecoverFault::Disk) => b"disk",
        Err(RecoverFault::Memory) => b"memory",
    })
}

/// Answers `cuts INTENT (NAME BYTES)..`: cuts the bytes of the journal entry INTENT to each shorter
/// length. Adds how many lengths there are, and at how many of them a recovery of the files with
/// the cut entry refuses it and writes nothing.
pub(crate) fn add_cuts(
    alloc: Global,
    words: &Words,
    answer: &mut Answer,
) -> Result<(), AllocError> {
    let intent = word_at(words, 1);
    let mut refused: u64 = 0;
    for len in 0..intent.len() {
        if is_cut_refused(alloc, words, &intent[..len])? {
            refused = refused.saturating_add(1);
        }
    }
    add_count(answer, b"cuts", intent.len() as u64);
    add_count(answer, b"refused", refused);
    Ok(())
}

/// Whether a recovery of the row's files, with `intent` as the file of the journal entry, refuses
/// the entry and leaves all files as they are.
fn is_cut_refused(alloc: Global, words: &Words, intent: &[u8]) -> Result<bool, AllocError> {
    // The files begin after the words `cuts` and INTENT.
    let mut tree = tree_of(alloc, words, 2)?;
    put(alloc, &mut tree, INTENT, intent)?;
    let before = text_of(alloc, &tree)?;
    let refused = matches!(recover(alloc, &mut tree), Err(RecoverFault::IntentBad(_)));
    let after = text_of(alloc, &tree)?;
    Ok(refused && tree.writes() == 0 && before == after)
}

/// Answers `change CHANGE CALLS (NAME BYTES)..`: makes the change on a tree with these files, which
/// stops after CALLS calls. Adds how far the change came, how many calls wrote, how many maps of
/// names a crash may leave, and the files of the tree.
pub(crate) fn add_change(
    alloc: Global,
    words: &Words,
    answer: &mut Answer,
) -> Result<(), AllocError> {
    let Some(change) = change_named(word_at(words, 1)) else {
        answer.push(b"no change");
        return Ok(());
    };
    // The files begin after the words `change`, CHANGE and CALLS.
    let mut tree = tree_of(alloc, words, 3)?;
    // Each call after the first CALLS calls fails.
    tree.stop_after(long_at(words, 2));
    add_reached(answer, run_change(alloc, change, &mut tree));
    add_count(answer, b"writes", tree.writes());
    add_count(answer, b"maps", tree.maps());
    add_tree(alloc, &tree, answer)
}
