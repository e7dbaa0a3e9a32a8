//! `carry_out`, which carries a change through: it asks the tree for each target, stages the files,
//! commits the intent, and does its actions. The rules are in `docs/crash-safety.md`, "A change of
//! several files".
ghost use Rattle.std.specs.Prelude.{◌≡◌, ◌<◌, ◌⊎◌, [], ℕ, false, List, None, length, IfErr, IsErrOf, OnErr, OnOk};
ghost use Rattle.base_core.specs.Calls.{IfObservable};
ghost use Rattle.base_core.specs.Faults.{CountsOnlyRise, CountsNewFaultWithCause, CountsNoNewFaultOrLackOfMemory};
ghost use Rattle.base_core.specs.Tree.{TreeState, files_of};
ghost use Rattle.base_core.specs.declared.cause.Cause.{Cause};
ghost use Rattle.journal_commit.specs.journal_core.Recovery.{files_after_actions, intent_name};
ghost use Rattle.journal_commit.specs.journal_core.Staged.{AreIntentAndStagedPathsFree, HasNoStagedNames, new_stage_of_removals_and_writes, files_with_staged};
ghost use Rattle.journal_commit.specs.journal_core.Targets.{AreAccepted};
ghost use Rattle.journal_staging.specs.Carried.{IsCarriedTo};
ghost use Rattle.journal_staging.specs.SourceStaging.{IsFaultExplainedByCounts};
ghost use Rattle.journal_staging.specs.Sources.{EachMayDenote, EachDenotes};
ghost use Rattle.journal_staging.specs.Spoiled.{HasSpoiledFile};
ghost use Rattle.journal_staging.specs.declared.writes.StageFault.TheVariants.{Bad, Disk as DiskFault};
ghost use Rattle.journal_commit.specs.Asked.{TargetsAreAccepted};
ghost use Rattle.journal_commit.specs.StageRun.{IsRunOfStagedChange, IsStagedChangeComplete, IsRunThatStagedAndBeganFiles, IsStagingRun};

use crate::writes::{StageFault, StagedWrite, stage_write};
use base_core::Tree;
use journal_commit::{
    Stage, a_new_stage_is_staging, a_staging_run_is_a_stage_run, carry_through, check_targets,
};
use package_verifier::Piece;

/// Stages the files of all writes, in their order. Files of packages are read into the buffer
/// `piece`. The clauses are those of `stage_write`, for all writes.
fn stage_each<T: Tree>(
    stage: &mut Stage,
    tree: &mut T,
    writes: &[StagedWrite<'_>],
    piece: &mut Piece,
) -> Result<(), StageFault>
    // No staged file is begun and not yet ended.
    requires closed { stage.old.is_open ≡ false }
    // No file is staged yet.
    requires none { stage.old.staged ≡ 0 }
    // There are as many sources as writes of the intent.
    requires same { length writes.now ≡ length stage.old.intent.writes }
    // Whatever is returned, only staged files have changed at each moment.
    ensures run { (v : TreeState) (first : List TreeState)
        → IsRunThatStagedAndBeganFiles stage.old [] None v first (T.history tree.old)
        → IsStagingRun v first (T.history tree.new) }
    // If the sources of the writes denote the bytes `contents`: on Ok, these are the bytes of the
    // staged files.
    ensures staging { (contents : List (List ℕ)) (v : TreeState) (first : List TreeState)
        → IsRunThatStagedAndBeganFiles stage.old [] None v first (T.history tree.old)
        → EachDenotes (files_of v) writes.now contents
        → OnOk result (IsRunThatStagedAndBeganFiles stage.new contents None v first
        (T.history tree.new)) }
    // If the sources of the writes denote bytes, the only possible error is that of the tree.
    ensures good { (contents : List (List ℕ)) (v : TreeState) (first : List TreeState)
        → IsRunThatStagedAndBeganFiles stage.old [] None v first (T.history tree.old)
        → EachDenotes (files_of v) writes.now contents
        → IfErr result (λ fault. fault ≡ DiskFault) }
    // On Ok, whatever the tree has returned, the staged files have bytes that the sources of the
    // writes may denote.
    ensures listed { (v : TreeState) (first : List TreeState)
        → IsRunThatStagedAndBeganFiles stage.old [] None v first (T.history tree.old)
        → OnOk result ((contents : List (List ℕ)) × EachMayDenote writes.now contents
        × IsRunThatStagedAndBeganFiles stage.new contents None v first (T.history tree.new)) }
    // If the error is `Bad`, one of the writes is a file of the package of this member, and the
    // package's file is spoiled with this cause.
    ensures bad { (member : ℕ) (cause : Cause) → IsErrOf result (Bad member cause)
        → HasSpoiledFile member cause writes.now }
    // On Ok, all writes have their staged files.
    ensures view { OnOk result (stage.new ≡ record stage.old { staged = length writes.now }) }
    // How the tree's counts explain the result.
    ensures counts { IsFaultExplainedByCounts DiskFault
        (T.counts tree.old) (T.counts tree.new) result }
    // No call is a misuse, if the sources of the writes denote bytes, and the paths of the intent
    // and of the staged files are free.
    ensures proper { (contents : List (List ℕ)) (v : TreeState) (first : List TreeState)
        → IsRunThatStagedAndBeganFiles stage.old [] None v first (T.history tree.old)
        → EachDenotes (files_of v) writes.now contents → AreIntentAndStagedPathsFree (files_of v)
        → (T.counts tree.new).misuses ≡ (T.counts tree.old).misuses }
{
    for write in writes {
        stage_write(stage, tree, &write.source, piece)?;
    }
    Ok(())
}

/// Carries through a change, given its stage and the sources of its writes. It asks the tree for
/// each name that is removed or written, stages the files, publishes (commits) the intent, and does
/// all actions. It allocates no memory: files of packages are read into the buffer `piece`.
///
/// # Errors
///
/// `Bad` if a file of a package does not have its digest any more; then nothing is published yet.
/// `Disk` if a call on the tree failed.
pub fn carry_out<T: Tree>(
    stage: &mut Stage,
    tree: &mut T,
    writes: &[StagedWrite<'_>],
    piece: &mut Piece,
) -> Result<(), StageFault>
    // The stage is new: nothing is staged yet, and no action is done.
    requires new { stage.old
        ≡ new_stage_of_removals_and_writes stage.old.intent.removals stage.old.intent.writes }
    // There are as many sources as writes of the intent.
    requires same { length writes.now ≡ length stage.old.intent.writes }

    // If no intent is read, nothing is staged, and the sources of the writes denote the bytes
    // `contents`, the change leads to the files with these bytes under the names of the writes.
    ensures run { IfObservable (T.history tree.old) (λ v. (contents : List (List ℕ))
        → v.names intent_name ≡ None → HasNoStagedNames (files_of v)
        → EachDenotes (files_of v) writes.now contents
        → IsCarriedTo (files_after_actions stage.old.intent (files_with_staged 1 contents
        (files_of v)))
        v (T.history tree.old) (T.history tree.new) result) }
    // Once Ok is returned, whatever the tree has returned, the change is complete,
    // with bytes that the sources may denote. So the files of a package have the size and the
    // digest that the package lists.
    ensures listed { IfObservable (T.history tree.old) (λ v.
        v.names intent_name ≡ None → HasNoStagedNames (files_of v)
        → OnOk result ((contents : List (List ℕ)) × EachMayDenote writes.now contents
        × IsStagedChangeComplete (files_after_actions stage.old.intent
        (files_with_staged 1 contents (files_of v)))
        v (T.history tree.new))) }
    // If the error is `Bad`, nothing was committed: only staged files have changed.
    ensures unpublished { IfObservable (T.history tree.old) (λ v.
        v.names intent_name ≡ None → HasNoStagedNames (files_of v)
        → (member : ℕ) (cause : Cause) → IsErrOf result (Bad member cause)
        → IsStagingRun v (T.history tree.old) (T.history tree.new)) }
    // After an error, either only staged files have changed; or the run is that of a change that
    // leads to files with bytes which the sources may denote.
    ensures cut_off { IfObservable (T.history tree.old) (λ v.
        v.names intent_name ≡ None → HasNoStagedNames (files_of v)
        → OnErr result (IsStagingRun v (T.history tree.old) (T.history tree.new)
        ⊎ ((contents : List (List ℕ)) × EachMayDenote writes.now contents
        × IsRunOfStagedChange (files_after_actions stage.old.intent (files_with_staged 1 contents
        (files_of v)))
        v (T.history tree.old) (T.history tree.new)))) }
    // The tree is asked for all targets first: either nothing has changed, or the tree has accepted
    // each target of the change.
    ensures asked { (T.history tree.new ≡ T.history tree.old)
        ⊎ AreAccepted T.accepts stage.old.intent }
    // On Ok, the tree has accepted each target of the change.
    ensures accepted { OnOk result (AreAccepted T.accepts stage.old.intent) }
    // At each moment the tree has accepted each name whose file a recovery would change.
    ensures promised { TargetsAreAccepted T.accepts (T.history tree.old) (T.history tree.new) }
    // If the error is `Bad`, one of the writes is a file of the package of this member, and the
    // package's file is spoiled with this cause.
    ensures bad { (member : ℕ) (cause : Cause) → IsErrOf result (Bad member cause)
        → HasSpoiledFile member cause writes.now }
    // No count of the tree's faults falls.
    ensures goes_on { CountsOnlyRise (T.counts tree.old) (T.counts tree.new) }
    // An I/O error is returned only if a fault was counted.
    ensures disk { IsErrOf result DiskFault
        → CountsNewFaultWithCause (T.counts tree.old) (T.counts tree.new) }
    // Ok is returned only if no fault was counted.
    ensures kept { OnOk result (CountsNoNewFaultOrLackOfMemory (T.counts tree.old)
        (T.counts tree.new)) }
    // With another error than one of the tree, no fault was counted.
    ensures others { IfErr result (λ fault. (fault ≡ DiskFault → ⊥)
        → CountsNoNewFaultOrLackOfMemory (T.counts tree.old) (T.counts tree.new)) }
    // No call is a misuse, if the sources of the writes denote bytes, and the paths of the intent
    // and of the staged files are free before the change and after all its actions.
    ensures proper { IfObservable (T.history tree.old) (λ v. (contents : List (List ℕ))
        → v.names intent_name ≡ None → HasNoStagedNames (files_of v)
        → EachDenotes (files_of v) writes.now contents → AreIntentAndStagedPathsFree (files_of v)
        → AreIntentAndStagedPathsFree (files_after_actions stage.old.intent
        (files_with_staged 1 contents
        (files_of v)))
        → (T.counts tree.new).misuses ≡ (T.counts tree.old).misuses) }
{
    // Laws that the proof needs; they compute nothing.
    a_new_stage_is_staging();
    a_staging_run_is_a_stage_run();
    stage.names_are_free();
    check_targets(stage, tree)?;
    stage_each(stage, tree, writes, piece)?;
    carry_through(stage, tree)?;
    Ok(())
}
