//! The answers to the questions `stop` and `fault`: a change that is cut off after some calls, with
//! the recovery of each crash image; and a change one of whose calls fails, with recoveries that
//! fail too. The rules are in `docs/crash-safety.md`, "A change of several files" and "Recovery".
use crate::journal::changing::{Reached, StagedChange, add_reached, change_named, run_change};
use crate::tree_words::{add_count, long_at, text_of, tree_of};
use base_core::Words;
use journal_recovery::recover;
use row_lines::{Answer, word_at};
use std::alloc::{AllocError, Global};
use tree_memory::MemoryTree;

/// How many pairs of failing calls are tried at most: one call of the first recovery, and one of
/// the second. Each row has fewer pairs.
const MOST_PAIRS: u64 = 6400;

/// The index of the first word of a row that names a file. The words before it are the question,
/// CHANGE and CALLS or CALL.
const FIRST_FILE_WORD: usize = 3;

/// The change of a row, the files before and after it, and counts of recovered trees by the files
/// that they have.
struct Sweep {
    /// The change of the row.
    change: StagedChange,
    /// How far the change came when it was last made.
    reached: Reached,
    /// The files before the change, each as `NAME=BYTES`.
    old_files: Vec<u8>,
    /// The files after the change, each as `NAME=BYTES`.
    new_files: Vec<u8>,
    /// How many trees have the files before the change.
    old: u64,
    /// How many trees have the files after the change.
    new: u64,
    /// How many trees have other files, or were not recovered, or have other files after a further
    /// crash and recovery.
    other: u64,
}

/// Drops the parts in one call, so that a function that gives up has one drop and not many.
impl Drop for Sweep {
    fn drop(self) {
        let Sweep {
            change: _,
            reached: _,
            old_files: _,
            new_files: _,
            old: _,
            new: _,
            other: _,
        } = self;
    }
}

/// Which files a tree has, of those that a sweep compares.
#[derive(Clone, Copy)]
enum Files {
    /// The files before the change.
    Old,
    /// The files after the change.
    New,
    /// Other files.
    Other,
}

impl Sweep {
    /// The change of a row with its files, before any tree is recovered. None if the row names no
    /// change, or the change does not finish.
    fn of_row(alloc: Global, words: &Words) -> Result<Option<Sweep>, AllocError> {
        let Some(change) = change_named(word_at(words, 1)) else {
            return Ok(None);
        };
        let mut tree = tree_of(alloc, words, FIRST_FILE_WORD)?;
        let old_files = text_of(alloc, &tree)?;
        if !matches!(run_change(alloc, change, &mut tree), Reached::Finished) {
            return Ok(None);
        }
        let new_files = text_of(alloc, &tree)?;
        Ok(Some(Sweep {
            change,
            reached: Reached::Finished,
            old_files,
            new_files,
            old: 0,
            new: 0,
            other: 0,
        }))
    }

    /// Recovers the tree, and counts it by the files that it then has. It counts as other if the
    /// recovery fails, or if the crash image that `choice` stands for does not recover to the same
    /// files.
    fn count_recovery(
        &mut self,
        alloc: Global,
        tree: &mut MemoryTree,
        choice: u64,
    ) -> Result<(), AllocError> {
        let files = self.recovered_files(alloc, tree)?;
        let mut image = tree.pick_image(alloc, choice)?;
        match (files, self.recovered_files(alloc, &mut image)?) {
            (Files::Old, Files::Old) => self.old = self.old.saturating_add(1),
            (Files::New, Files::New) => self.new = self.new.saturating_add(1),
            _ => self.other = self.other.saturating_add(1),
        }
        Ok(())
    }

    /// Recovers the tree, and returns which files it then has: `Other` if the recovery fails.
    fn recovered_files(&self, alloc: Global, tree: &mut MemoryTree) -> Result<Files, AllocError> {
        if recover(alloc, tree).is_err() {
            return Ok(Files::Other);
        }
        let files = text_of(alloc, tree)?;
        if files == self.old_files {
            return Ok(Files::Old);
        }
        if files == self.new_files {
            return Ok(Files::New);
        }
        Ok(Files::Other)
    }

    /// Adds the three counts, each after its word `old`, `new` or `other`.
    fn add_counts(&self, answer: &mut Answer) {
        add_count(answer, b"old", self.old);
        add_count(answer, b"new", self.new);
        add_count(answer, b"other", self.other)
    }
}

// ---- `stop`: changes that are cut off

/// Answers `stop CHANGE CALLS (NAME BYTES)..`: adds how far the change comes on a tree with these
/// files that stops after CALLS calls. Then adds how many maps of names a crash may leave, and how
/// many crash images recover to the old, to the new, and to other files.
pub(crate) fn add_stop(
    alloc: Global,
    words: &Words,
    answer: &mut Answer,
) -> Result<(), AllocError> {
    let Some(mut sweep) = Sweep::of_row(alloc, words)? else {
        answer.push(b"no change");
        return Ok(());
    };
    sweep.add_stop(alloc, words, answer)
}

impl Sweep {
    /// Adds the answer for the change, stopped after as many calls as the row says.
    fn add_stop(
        &mut self,
        alloc: Global,
        words: &Words,
        answer: &mut Answer,
    ) -> Result<(), AllocError> {
        let mut tree = tree_of(alloc, words, FIRST_FILE_WORD)?;
        tree.stop_after(long_at(words, 2));
        add_reached(answer, run_change(alloc, self.change, &mut tree));
        add_count(answer, b"maps", tree.maps());
        self.count_images(alloc, &tree)?;
        self.add_counts(answer);
        Ok(())
    }

    /// Recovers and counts each crash image of the tree.
    fn count_images(&mut self, alloc: Global, tree: &MemoryTree) -> Result<(), AllocError> {
        // Each number `choice` stands for a map of names, and one of three contents of unsynced
        // files.
        for choice in 0..tree.picks().saturating_mul(3) {
            let mut image = tree.pick_image(alloc, choice)?;
            self.count_recovery(alloc, &mut image, choice)?;
        }
        Ok(())
    }
}

// ---- `fault`: calls that fail

/// Answers `fault CHANGE CALL (NAME BYTES)..`: adds how far the change comes if its call number
/// CALL fails. Then two recoveries fail, at each pair of their calls in turn. Adds in how many of
/// these runs the third recovery leaves the old, the new, or other files.
pub(crate) fn add_fault(
    alloc: Global,
    words: &Words,
    answer: &mut Answer,
) -> Result<(), AllocError> {
    let Some(mut sweep) = Sweep::of_row(alloc, words)? else {
        answer.push(b"no change");
        return Ok(());
    };
    sweep.add_fault(alloc, words, answer)
}

/// In which of the two recoveries after a change a call has failed.
#[derive(Clone, Copy)]
enum Failed {
    /// A call of the second recovery has failed.
    Second,
    /// Only a call of the first recovery has failed.
    First,
    /// No call has failed.
    Neither,
}

impl Sweep {
    /// Adds the answer for the change, in which the call fails that the row names.
    fn add_fault(
        &mut self,
        alloc: Global,
        words: &Words,
        answer: &mut Answer,
    ) -> Result<(), AllocError> {
        // The numbers of the calls that are to fail, counted from 1: one of the first recovery, and
        // one of the second.
        let mut first = 1u64;
        let mut second = 1u64;
        for _ in 0..MOST_PAIRS {
            match self.count_faults(alloc, words, first, second)? {
                Failed::Second => second = second.saturating_add(1),
                Failed::First => {
                    first = first.saturating_add(1);
                    second = 1;
                }
                Failed::Neither => break,
            }
        }
        add_reached(answer, self.reached);
        self.add_counts(answer);
        Ok(())
    }

    /// Makes the change, of which the call fails that the row names. Then makes two recoveries in
    /// which the calls with these numbers are to fail, and counts a third one without a failure.
    fn count_faults(
        &mut self,
        alloc: Global,
        words: &Words,
        first: u64,
        second: u64,
    ) -> Result<Failed, AllocError> {
        let mut tree = tree_of(alloc, words, FIRST_FILE_WORD)?;
        tree.fail_at(&[long_at(words, 2)])?;
        self.reached = run_change(alloc, self.change, &mut tree);
        let first_fails = recovery_fails(alloc, &mut tree, first)?;
        let second_fails = recovery_fails(alloc, &mut tree, second)?;
        // The last argument picks the crash image that is recovered after the third recovery.
        self.count_recovery(alloc, &mut tree, second)?;
        Ok(match (first_fails, second_fails) {
            (_, true) => Failed::Second,
            (true, false) => Failed::First,
            (false, false) => Failed::Neither,
        })
    }
}

/// Whether a recovery of the tree fails if its call number `call` is to fail.
fn recovery_fails(alloc: Global, tree: &mut MemoryTree, call: u64) -> Result<bool, AllocError> {
    tree.fail_at(&[call])?;
    let fails = recover(alloc, tree).is_err();
    // From here on no call is to fail.
    tree.fail_at(&[])?;
    Ok(fails)
}
