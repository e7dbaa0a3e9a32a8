//! `recover`, which finishes an interrupted change and removes staged files, and its parts.
//! The rules are in `docs/crash-safety.md`, "Recovery"; which actions an intent has, in "A change
//! of several files".
ghost use Rattle.std.specs.Prelude.{◌≡◌, ℕ, Bool, List, Some, None, IsSome, OnOk, IsErrOf};
ghost use Rattle.base_core.specs.Calls.{HoldsNow, IfObservable};
ghost use Rattle.base_core.specs.Crash.{Since};
ghost use Rattle.base_core.specs.Undone.{IsDurable};
ghost use Rattle.base_core.specs.Tree.{files_of};
ghost use Rattle.base_core.specs.declared.cause.Cause.{Cause};
ghost use Rattle.journal_core.specs.CallCounts.{IsResultExplainedByCounts};
ghost use Rattle.journal_core.specs.Kept.{ReadsOldOrNewBytesOutsideJournal, IsAbsentAfterEachCrash};
ghost use Rattle.journal_core.specs.Quiet.{StateIsUnchanged};
ghost use Rattle.journal_core.specs.Recovering.{AreStagedNames};
ghost use Rattle.journal_core.specs.Recovery.{EachCrashLeavesStateOf, StateDependsOn, intent_name, intent_of};
ghost use Rattle.journal_core.specs.Staged.{AreJournalPathsFreeAfterReplayIfAny, HasNoStagedNames, unstaged_files};
ghost use Rattle.journal_recovery.specs.RecoveryContracts.{EmptiesStage, IsRecoveryExplainedByCounts, RefusesOnlyBadIntent, RemovesIntentLast, RemovesStagedNames, ReplaysIntent};

use base_core::{Disk, Names, Tree, read_all};
use journal_core::calls::{remove, sync_all_names};
use journal_core::{RecoverFault, Stage, apply_all, intent_name, stage_folder};
use std::alloc::{AllocError, Global};

/// Does the actions of the intent, if there is one, and removes all staged files.
///
/// # Errors
///
/// `IntentBad` if the file of the intent is no intent container; then nothing has changed. `Disk`
/// if a call on the tree failed, and `Memory` if the program is out of memory.
pub fn recover<T: Tree>(alloc: Global, tree: &mut T) -> Result<(), RecoverFault>
    // If the tree is durable at the start: at each moment it is durable, each crash leaves a state
    // that one at the start might have left, and the files as read keep their state.
    ensures moments { IfObservable (T.history tree.old) (λ v. (ignored : List ℕ → Bool)
        → IsDurable (StateDependsOn ignored) v
        → Since (StateIsUnchanged ignored v) (T.history tree.old) (T.history tree.new)) }

    // Whether the tree is durable or not, at each moment a further recovery of the files as read
    // would yield the same files as at the call.
    ensures reads { IfObservable (T.history tree.old) (λ v.
        Since (λ w. unstaged_files (files_of w) ≡ unstaged_files (files_of v))
        (T.history tree.old) (T.history tree.new)) }

    // At each moment a name outside the journal has, as read, its old bytes or those that recovery
    // yields.
    ensures bytes { IfObservable (T.history tree.old) (λ v.
        Since (ReadsOldOrNewBytesOutsideJournal (files_of v) (unstaged_files (files_of v)))
        (T.history tree.old) (T.history tree.new)) }

    // Once Ok is returned, the files as read are those that recovery yields: all actions of the
    // intent are done, the intent is gone, and nothing is staged.
    ensures files { IfObservable (T.history tree.old) (λ v.
        OnOk result (HoldsNow (T.history tree.new) (λ w. (files_of w ≡ unstaged_files (files_of v))
        × (w.names intent_name ≡ None)))) }

    // If it found an intent in a durable tree: once Ok is returned, each crash leaves the state
    // of the files that it found.
    ensures settled { IfObservable (T.history tree.old) (λ v. (ignored : List ℕ → Bool)
        → IsDurable (StateDependsOn ignored) v → IsSome (intent_of (files_of v))
        → OnOk result (HoldsNow (T.history tree.new) (EachCrashLeavesStateOf ignored
        (files_of v)))) }

    // Whatever is returned, the intent and the staged files are only removed, and the intent is
    // removed after all its actions are durable.
    ensures journal { RemovesIntentLast (T.history tree.old) (T.history tree.new) }

    // Once Ok is returned, no crash restores an intent that it found.
    ensures gone { IfObservable (T.history tree.old) (λ v. IsSome (v.names intent_name)
        → OnOk result (HoldsNow (T.history tree.new) (IsAbsentAfterEachCrash intent_name))) }

    // If there is no intent and no staged file, the tree's history is unchanged.
    ensures idle { IfObservable (T.history tree.old) (λ v. v.names intent_name ≡ None
        → HasNoStagedNames v.names → T.history tree.new ≡ T.history tree.old) }

    // The intent is refused only if its file is no intent container. If it is none, nothing
    // changes, whatever is returned.
    ensures refusal { RefusesOnlyBadIntent (T.history tree.old) (T.history tree.new) result }

    // How the tree's counts explain the result.
    ensures counts { IsRecoveryExplainedByCounts (T.counts tree.old) (T.counts tree.new) result }

    // No call is a misuse, if no intent is found; or if the paths of the intent and of the staged
    // files are free among the files that recovery yields.
    ensures proper { IfObservable (T.history tree.old)
        (λ v. AreJournalPathsFreeAfterReplayIfAny (files_of v)
        → (T.counts tree.new).misuses ≡ (T.counts tree.old).misuses) }
{
    replay(alloc, tree)?;
    empty_stage(alloc, tree)
}

/// Does the actions of the intent and removes the intent, if there is one. Staged files that belong
/// to no intent are kept. The errors are those of `recover`.
fn replay<T: Tree>(alloc: Global, tree: &mut T) -> Result<(), RecoverFault>
    // The actions of the intent are done, and the intent is removed, if there is one.
    ensures intent { ReplaysIntent (T.history tree.old) (T.history tree.new) result }
    // How the tree's counts explain the result.
    ensures counts { IsRecoveryExplainedByCounts (T.counts tree.old) (T.counts tree.new) result }
    // No call is a misuse, if no intent is found; or if the paths of the intent and of the staged
    // files are free among the files that recovery yields.
    ensures proper { IfObservable (T.history tree.old)
        (λ v. AreJournalPathsFreeAfterReplayIfAny (files_of v)
        → (T.counts tree.new).misuses ≡ (T.counts tree.old).misuses) }
{
    let name = intent_name(alloc)?;
    match read_all(alloc, tree, &name)? {
        Some(file) => replay_file(alloc, tree, file),
        None => Ok(()),
    }
}

/// Does all actions of the intent that `file`, the file under the intent's name, encodes, and then
/// removes the intent. It is not known which actions were done before. The names are synced first:
/// otherwise a crash could undo the publishing of the intent and keep one of the actions.
fn replay_file<T: Tree>(alloc: Global, tree: &mut T, file: Vec<u8>) -> Result<(), RecoverFault>
    // The bytes are those of the file under the intent's name.
    requires { IfObservable (T.history tree.old)
        (λ v. files_of v intent_name ≡ Some file.items) }
    // The actions of the intent are done, and the intent is removed.
    ensures intent { ReplaysIntent (T.history tree.old) (T.history tree.new) result }
    // How the tree's counts explain the result.
    ensures counts { IsRecoveryExplainedByCounts (T.counts tree.old) (T.counts tree.new) result }
    // No call is a misuse, if the paths of the intent and of the staged files are free among the
    // files that recovery yields.
    ensures proper { IfObservable (T.history tree.old)
        (λ v. AreJournalPathsFreeAfterReplayIfAny (files_of v)
        → (T.counts tree.new).misuses ≡ (T.counts tree.old).misuses) }
{
    let mut stage = Stage::found(alloc, file)?;
    sync_all_names(tree)?;
    apply_all(&mut stage, tree)?;
    stage.finish(tree)?;
    Ok(())
}

/// Removes every staged file. It is called when no intent is read, so the state is unchanged.
///
/// # Errors
///
/// `Disk` if a call on the tree failed, and `Memory` if the program is out of memory.
fn empty_stage<T: Tree>(alloc: Global, tree: &mut T) -> Result<(), RecoverFault>
    // The staged files are removed, and nothing else changes.
    ensures stage { EmptiesStage (T.history tree.old) (T.history tree.new) result }
    // How the tree's counts explain the result.
    ensures counts { IsRecoveryExplainedByCounts (T.counts tree.old) (T.counts tree.new) result }
    // No intent is refused, since none is read.
    ensures only { (cause : Cause) → IsErrOf result (RecoverFault.IntentBad cause) → ⊥ }
    // No call is a misuse.
    ensures proper { IfObservable (T.history tree.old) (λ v. (T.counts tree.new).misuses
        ≡ (T.counts tree.old).misuses) }
{
    let folder = stage_folder(alloc)?;
    let names = tree.list(alloc, &folder)?;
    clear_all(tree, &names)?;
    Ok(())
}

/// Removes these names, which are all in the staging area. All names of the tree are synced first,
/// so that no crash restores an intent for which one of these files is staged. Without names no
/// call is made.
fn clear_all<T: Tree>(tree: &mut T, names: &Names) -> Result<(), Disk>
    // If the names are all in the staging area of a durable tree without an intent, each moment is
    // durable, and the state is unchanged.
    ensures moments { IfObservable (T.history tree.old) (λ v. (ignored : List ℕ → Bool)
        → IsDurable (StateDependsOn ignored) v → v.names intent_name ≡ None
        → AreStagedNames names.now
        → Since (StateIsUnchanged ignored v) (T.history tree.old) (T.history tree.new)) }
    // The names are removed, if all are in the staging area, and nothing else changes.
    ensures removal { RemovesStagedNames names.now
        (T.history tree.old) (T.history tree.new) result }
    // How the tree's counts explain the result.
    ensures counts { IsResultExplainedByCounts (T.counts tree.old) (T.counts tree.new) result }

    // No call is a misuse.
    ensures proper { IfObservable (T.history tree.old) (λ v. (T.counts tree.new).misuses
        ≡ (T.counts tree.old).misuses) }
{
    if names.is_empty() {
        return Ok(());
    }
    sync_all_names(tree)?;
    remove_all(tree, names)
}

/// Removes these names, which are all in the staging area, one by one. It is called when no crash
/// restores an intent.
fn remove_all<T: Tree>(tree: &mut T, names: &Names) -> Result<(), Disk>
    // If the names are all in the staging area of a durable tree, and no crash restores an intent,
    // each moment is durable, and the state is unchanged.
    ensures moments { IfObservable (T.history tree.old) (λ v. (ignored : List ℕ → Bool)
        → IsDurable (StateDependsOn ignored) v → IsAbsentAfterEachCrash intent_name v
        → AreStagedNames names.now
        → Since (StateIsUnchanged ignored v) (T.history tree.old) (T.history tree.new)) }
    // The names are removed, if all are in the staging area, and nothing else changes.
    ensures removal { RemovesStagedNames names.now
        (T.history tree.old) (T.history tree.new) result }
    // How the tree's counts explain the result.
    ensures counts { IsResultExplainedByCounts (T.counts tree.old) (T.counts tree.new) result }

    // No call is a misuse.
    ensures proper { IfObservable (T.history tree.old) (λ v. (T.counts tree.new).misuses
        ≡ (T.counts tree.old).misuses) }
{
    for i in 0..names.len() {
        remove(tree, names.get(i))?;
    }
    Ok(())
}
