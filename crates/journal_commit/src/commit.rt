//! The second half of a change, after all files are staged: its intent is published (committed),
//! its actions are done, and the intent is removed. The rules are in `docs/crash-safety.md`, "A
//! change of several files": the example from the line of `publish` on.
ghost use Rattle.std.specs.Prelude.{◌≡◌, ◌≤◌, ℕ, Bool, true, false, List, None, length, IsSome, OnOk, OnErr};
ghost use Rattle.base_core.specs.Calls.{HoldsNow, IfObservable};
ghost use Rattle.base_core.specs.Crash.{Since};
ghost use Rattle.base_core.specs.Undone.{IsDurable};
ghost use Rattle.base_core.specs.Faults.{CountsOnlyRise, CountsNewFaultWithCause, CountsNoNewFaultOrLackOfMemory};
ghost use Rattle.base_core.specs.Files.{Files};
ghost use Rattle.base_core.specs.Tree.{TreeState, files_of};
ghost use Rattle.journal_core.specs.Acting.{CarriesOutActions};
ghost use Rattle.journal_core.specs.CallCounts.{IsResultExplainedByCounts};
ghost use Rattle.journal_core.specs.Kept.{IsAbsentAfterEachCrash};
ghost use Rattle.journal_core.specs.Recovery.{EachCrashLeavesStateOf, StateDependsOn, files_after_actions, intent_name};
ghost use Rattle.journal_core.specs.Staged.{AreIntentAndStagedPathsFree, IsCarryingOutActions, action_count, files_with_staged};
ghost use Rattle.journal_commit.specs.StageRun.{IsRunOfStagedChange, IsStagedChangeComplete, IsRunThatStagedAndBeganFiles, NamesOutsideJournalAreDurableIfNoIntent};

use base_core::{Disk, Tree};
use journal_core::{Stage, apply_all};

/// Publishes (commits) the intent of a stage all of whose files are staged, does all its actions,
/// and removes the intent.
pub fn carry_through<T: Tree>(stage: &mut Stage, tree: &mut T) -> Result<(), Disk>
    // No staged file is begun and not yet ended.
    requires closed { stage.old.is_open ≡ false }
    // All writes have their staged files.
    requires all { stage.old.staged ≡ length stage.old.intent.writes }

    // If the files with the bytes `contents` are staged, the moments from the start of staging on
    // are, whatever is returned, those of one change, which leads to the files after all actions.
    ensures run { (contents : List (List ℕ)) (v : TreeState) (first : List TreeState)
        → IsRunThatStagedAndBeganFiles stage.old contents None v first (T.history tree.old)
        → IsRunOfStagedChange (files_after_actions stage.old.intent (files_with_staged 1 contents
        (files_of v)))
        v first (T.history tree.new) }
    // Once Ok is returned, the change is complete.
    ensures done { (contents : List (List ℕ)) (v : TreeState) (first : List TreeState)
        → IsRunThatStagedAndBeganFiles stage.old contents None v first (T.history tree.old)
        → OnOk result (IsStagedChangeComplete
        (files_after_actions stage.old.intent (files_with_staged 1 contents (files_of v)))
        v (T.history tree.new)) }
    // No count of the tree's faults falls.
    ensures goes_on { CountsOnlyRise (T.counts tree.old) (T.counts tree.new) }
    // An error is a counted fault of the tree.
    ensures cause { OnErr result (CountsNewFaultWithCause (T.counts tree.old) (T.counts tree.new)) }
    // Ok is returned only if no fault was counted.
    ensures kept { OnOk result (CountsNoNewFaultOrLackOfMemory (T.counts tree.old)
        (T.counts tree.new)) }

    // No call is a misuse, if the paths of the intent and of the staged files are free among the
    // files before the staging, and among the files after all actions.
    ensures proper { (contents : List (List ℕ)) (v : TreeState) (first : List TreeState)
        → IsRunThatStagedAndBeganFiles stage.old contents None v first (T.history tree.old)
        → AreIntentAndStagedPathsFree (files_of v)
        → AreIntentAndStagedPathsFree (files_after_actions stage.old.intent
        (files_with_staged 1 contents
        (files_of v)))
        → (T.counts tree.new).misuses ≡ (T.counts tree.old).misuses }
{
    // A law that the proof needs; it computes nothing.
    stage.names_are_free();
    stage.publish(tree)?;
    enact(stage, tree)
}

/// Does all actions of a stage's published intent, and then removes the intent. The clauses say of
/// this part what those of `carry_through` say of the whole.
fn enact<T: Tree>(stage: &mut Stage, tree: &mut T) -> Result<(), Disk>
    // The intent is committed.
    requires published { stage.old.published ≡ true }
    // No more actions count as done than there are.
    requires within { stage.old.acted ≤ action_count stage.old.intent }
    // If the actions that the stage counts as done are done in the tree, the state is unchanged at
    // each moment, and recovery yields the same files.
    ensures actions { CarriesOutActions stage.old (T.history tree.old) (T.history tree.new) }
    // If the intent is present at the call: at each moment at which it is absent, no crash undoes a
    // change of a name outside the journal.
    ensures last { IfObservable (T.history tree.old) (λ v. IsSome (v.names intent_name)
        → Since NamesOutsideJournalAreDurableIfNoIntent (T.history tree.old) (T.history tree.new)) }
    // Once Ok is returned, each crash leaves the state of `files`, which recovery yields at the
    // call.
    ensures settled { IfObservable (T.history tree.old) (λ v. (ignored : List ℕ → Bool)
        (files : Files) → IsDurable (StateDependsOn ignored) v
        → IsCarryingOutActions stage.old files v
        → OnOk result (HoldsNow (T.history tree.new) (EachCrashLeavesStateOf ignored files))) }
    // Once Ok is returned, the files as read are these `files`, and no intent is read.
    ensures files { IfObservable (T.history tree.old) (λ v. (files : Files)
        → IsCarryingOutActions stage.old files v → OnOk result (HoldsNow (T.history tree.new)
        (λ w. (files_of w ≡ files) × (w.names intent_name ≡ None)))) }
    // Once Ok is returned, no crash restores the intent.
    ensures gone { OnOk result (IfObservable (T.history tree.new)
        (IsAbsentAfterEachCrash intent_name)) }
    // How the tree's counts explain the result.
    ensures counts { IsResultExplainedByCounts (T.counts tree.old) (T.counts tree.new) result }
    // No call is a misuse, if the paths of the intent and of the staged files are free among
    // `files`.
    ensures proper { IfObservable (T.history tree.old) (λ v. (files : Files)
        → IsCarryingOutActions stage.old files v → AreIntentAndStagedPathsFree files
        → (T.counts tree.new).misuses ≡ (T.counts tree.old).misuses) }
{
    apply_all(stage, tree)?;
    stage.finish(tree)
}
