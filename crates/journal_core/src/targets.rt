//! Before the first file is staged, the tree is asked whether it can carry out each removal and
//! move of a stage. A target that it can never accept would otherwise block every recovery, once
//! the change is committed.
//! The rule is in `docs/crash-safety.md`, "A change of several files".
ghost use Rattle.std.specs.Option.{option_copied};
ghost use Rattle.std.specs.Prelude.{OnOk};
ghost use Rattle.base_core.specs.Read.{OnlyReads};
ghost use Rattle.journal_core.specs.Targets.{AreAccepted, AreRemovalsAccepted, AreWritesAccepted};

use crate::stage::Stage;
use base_core::{Disk, Name, Tree, consecutive_reads_compose};

/// Asks the tree whether the file under `source` can later be renamed to `name`, or, without a
/// source, whether `name` can later be removed.
///
/// # Errors
///
/// `Disk` if the tree can never carry out this rename or removal, or if the call failed.
pub fn check_target<T: Tree>(tree: &mut T, name: &Name, source: Option<&Name>) -> Result<(), Disk>
    // The tree is only read: no file changes, no I/O error is hidden, and no call is a misuse.
    ensures tree { OnlyReads (record {}) (T.history tree.old) (T.history tree.new)
        (T.counts tree.old) (T.counts tree.new) result }
    // On Ok, the tree has accepted this target.
    ensures accepted { OnOk result (T.accepts (option_copied source.entry) name.now) }
{
    tree.check_target(name, source)?;
    Ok(())
}

/// Asks the tree, for each name that the stage removes, whether it can be removed.
fn check_removals<T: Tree>(stage: &Stage, tree: &mut T) -> Result<(), Disk>
    // The tree is only read: no file changes, no I/O error is hidden, and no call is a misuse.
    ensures tree { OnlyReads (record {}) (T.history tree.old) (T.history tree.new)
        (T.counts tree.old) (T.counts tree.new) result }
    // Once Ok is returned, the tree has accepted the removal of each of these names.
    ensures accepted { OnOk result (AreRemovalsAccepted T.accepts stage.now.intent.removals) }
{
    // A law that the proof needs; it computes nothing.
    consecutive_reads_compose::<u8, (), Disk>();
    for i in 0..stage.intent.removals_len() {
        check_target(tree, stage.intent.removal(i), None)?;
    }
    Ok(())
}

/// Asks the tree, for each name that the stage writes, whether the staged file of this write can be
/// renamed to it.
fn check_writes<T: Tree>(stage: &Stage, tree: &mut T) -> Result<(), Disk>
    // The tree is only read: no file changes, no I/O error is hidden, and no call is a misuse.
    ensures tree { OnlyReads (record {}) (T.history tree.old) (T.history tree.new)
        (T.counts tree.old) (T.counts tree.new) result }
    // Once Ok is returned, the tree has accepted each of these renames.
    ensures accepted { OnOk result (AreWritesAccepted T.accepts stage.now.intent.writes) }
{
    // Laws that the proof needs; they compute nothing.
    consecutive_reads_compose::<u8, (), Disk>();
    stage.names_are_free();
    for i in 0..stage.intent.writes_len() {
        let source = stage.intent.stage_name(i + 1);
        check_target(tree, stage.intent.write(i), Some(source))?;
    }
    Ok(())
}

/// Asks the tree for all removals and renames of the stage, before anything is staged.
///
/// # Errors
///
/// `Disk` if the tree can never carry out one of them, or if a call failed.
pub fn check_targets<T: Tree>(stage: &Stage, tree: &mut T) -> Result<(), Disk>
    // The tree is only read: no file changes, no I/O error is hidden, and no call is a misuse.
    ensures tree { OnlyReads (record {}) (T.history tree.old) (T.history tree.new)
        (T.counts tree.old) (T.counts tree.new) result }
    // On Ok, the tree has accepted each removal and each rename of the change.
    ensures accepted { OnOk result (AreAccepted T.accepts stage.now.intent) }
{
    // A law that the proof needs; it computes nothing.
    consecutive_reads_compose::<(), (), Disk>();
    check_removals(stage, tree)?;
    check_writes(stage, tree)
}
