//! The calls that stage files, one after another, as steps of a staging run; and laws on how such
//! runs begin and join. The rules are in `docs/crash-safety.md`, "A change of several files": the
//! lines of `file_begin`, `file_append` and `file_end` in the example.

ghost use Rattle.std.specs.Prelude.{◌≡◌, ◌<◌, ◌+◌, ◌++◌, ◌∷◌, [], ℕ, true, false, List, Some, None, length, OnOk, OnErr};
ghost use Rattle.base_core.specs.Tree.{TreeState, files_of};
ghost use Rattle.journal_core.specs.Staged.{HasNoStagedNames, new_stage_of_removals_and_writes, files_with_staged};
ghost use Rattle.journal_commit.specs.Asked.{TargetsAreAccepted};
ghost use Rattle.journal_commit.specs.StagingCalls.{ChangesOnlyBegunFile, ChangesOnlyStagedFiles, StagesFile};
ghost use Rattle.journal_commit.specs.StageRun.{IsRunThatStagedAndBeganFiles, IsStagingRun, IsRunOfStagedChange};
ghost use Rattle.base_core.specs.Calls.{IfObservable};
ghost use Rattle.base_core.specs.Files.{Files};
ghost use Rattle.journal_core.specs.Recovery.{Intent, files_after_actions, intent_name};
ghost use Rattle.journal_core.specs.journal_intent.FreeNames.{HasFreeNamesAndUnrepeatedWrites};

use base_core::{Disk, Tree};
use journal_core::Stage;

/// Makes an empty file for the next write.
pub fn begin_file<T: Tree>(stage: &mut Stage, tree: &mut T) -> Result<(), Disk>
    // No staged file is begun and not yet ended.
    requires closed { stage.old.is_open ≡ false }
    // A write is left whose file is not staged.
    requires more { stage.old.staged < length stage.old.intent.writes }

    // Whatever is returned, only staged files have changed at each moment; and no call is a misuse
    // if the paths of the stage are free.
    ensures only { ChangesOnlyStagedFiles stage.old (T.history tree.old) (T.history tree.new)
        (T.counts tree.old) (T.counts tree.new) result }
    // Once Ok is returned, the next staged file is begun, and is empty.
    ensures staging { (contents : List (List ℕ)) (v : TreeState) (first : List TreeState)
        → IsRunThatStagedAndBeganFiles stage.old contents None v first (T.history tree.old)
        → OnOk result (IsRunThatStagedAndBeganFiles stage.new contents (Some []) v first
        (T.history tree.new)) }
    // On Ok, the stage has a staged file that is begun and not yet ended.
    ensures view { OnOk result (stage.new ≡ record stage.old { is_open = true }) }
    // An error leaves the stage as it was.
    ensures err { OnErr result (stage.new ≡ stage.old) }
{
    stage.file_begin(tree)
}

/// Adds a piece of bytes at the end of the staged file that is begun. The clauses are those of
/// `begin_file`; but no path has to be free.
pub fn append_piece<T: Tree>(stage: &mut Stage, tree: &mut T, piece: &[u8]) -> Result<(), Disk>
    // A staged file is begun and not yet ended.
    requires { stage.old.is_open ≡ true }
    // Whatever is returned, at each moment only staged files have changed. No call is a misuse.
    ensures only { ChangesOnlyBegunFile stage.old (T.history tree.old) (T.history tree.new)
        (T.counts tree.old) (T.counts tree.new) result }
    // On Ok, the begun file has its bytes so far, followed by the piece.
    ensures staging { (contents : List (List ℕ)) (so_far : List ℕ) (v : TreeState)
        (first : List TreeState)
        → IsRunThatStagedAndBeganFiles stage.old contents (Some so_far) v first (T.history tree.old)
        → OnOk result (IsRunThatStagedAndBeganFiles stage.new contents (Some (so_far
        ++ piece.now)) v first
        (T.history tree.new)) }
    // The stage is unchanged, whatever is returned.
    ensures view { stage.new ≡ stage.old }
{
    stage.file_append(tree, piece)
}

/// Ends the staged file that is begun: its bytes are synced. The clauses are those of `begin_file`;
/// but no path has to be free.
pub fn end_file<T: Tree>(stage: &mut Stage, tree: &mut T) -> Result<(), Disk>
    // A staged file is begun and not yet ended.
    requires { stage.old.is_open ≡ true }
    // Whatever is returned, at each moment only staged files have changed. No call is a misuse.
    ensures only { ChangesOnlyBegunFile stage.old (T.history tree.old) (T.history tree.new)
        (T.counts tree.old) (T.counts tree.new) result }
    // On Ok, the begun file is ended: it is the last of the staged files.
    ensures staging { (contents : List (List ℕ)) (so_far : List ℕ) (v : TreeState)
        (first : List TreeState)
        → IsRunThatStagedAndBeganFiles stage.old contents (Some so_far) v first (T.history tree.old)
        → OnOk result (IsRunThatStagedAndBeganFiles stage.new (contents ++ so_far ∷ []) None v first
        (T.history tree.new)) }
    // On Ok, one more file is staged, and none is begun.
    ensures view { OnOk result
        (stage.new ≡ record stage.old { staged = stage.old.staged + 1; is_open = false }) }
    // An error leaves the stage as it was.
    ensures err { OnErr result (stage.new ≡ stage.old) }
{
    stage.file_end(tree)
}

/// Stages one whole file with these bytes. The clauses are those of `begin_file`, for the three
/// calls.
pub fn stage_bytes<T: Tree>(stage: &mut Stage, tree: &mut T, bytes: &[u8]) -> Result<(), Disk>
    // No staged file is begun and not yet ended.
    requires closed { stage.old.is_open ≡ false }
    // A write is left whose file is not staged.
    requires more { stage.old.staged < length stage.old.intent.writes }
    // Only staged files have changed. On Ok, the next write has its staged file, with these bytes.
    ensures { StagesFile stage.old stage.new bytes.now (T.history tree.old) (T.history tree.new)
        (T.counts tree.old) (T.counts tree.new) result }
{
    begin_file(stage, tree)?;
    append_piece(stage, tree, bytes)?;
    end_file(stage, tree)
}

/// Stages one whole file of two pieces, one after the other. The clauses are those of `begin_file`,
/// for the four calls.
pub fn stage_pieces<T: Tree>(
    stage: &mut Stage,
    tree: &mut T,
    first_piece: &[u8],
    last_piece: &[u8],
) -> Result<(), Disk>
    // No staged file is begun and not yet ended.
    requires closed { stage.old.is_open ≡ false }
    // A write is left whose file is not staged.
    requires more { stage.old.staged < length stage.old.intent.writes }
    // Only staged files have changed. On Ok, the next write has its staged file, whose bytes are
    // those of the two pieces.
    ensures { StagesFile stage.old stage.new (first_piece.now ++ last_piece.now)
        (T.history tree.old) (T.history tree.new) (T.counts tree.old) (T.counts tree.new) result }
{
    begin_file(stage, tree)?;
    append_piece(stage, tree, first_piece)?;
    append_piece(stage, tree, last_piece)?;
    end_file(stage, tree)
}

/// How *TargetsAreAccepted* is shown for a run. It holds of a run that adds no moment to the
/// history. Since reads add none, it holds of a run that begins with reads if it holds of the part
/// after them.
pub fn runs_with_accepted_targets_begin_with_reads<T: Tree>()
    // It holds of a run that adds no moment.
    ensures same { (old now : List TreeState) → now ≡ old → TargetsAreAccepted T.accepts old now }
    // It holds of a run whose first part adds no moment, if it holds of the rest.
    ensures later { (old mid now : List TreeState) → mid ≡ old
        → TargetsAreAccepted T.accepts mid now
        → TargetsAreAccepted T.accepts old now }
{}

/// A new stage begins a staging run, if the newest state has no intent and no staged file.
pub fn a_new_stage_is_staging()
    ensures { (removals writes : List (List ℕ)) (now : List TreeState) → IfObservable now (λ v.
        v.names intent_name ≡ None → HasNoStagedNames (files_of v)
        → IsRunThatStagedAndBeganFiles
        (new_stage_of_removals_and_writes removals writes) [] None v now now) }
{}

/// A run that only stages files is the beginning of a staged change, whatever `files` the change is
/// to lead to.
pub fn a_staging_run_is_a_stage_run()
    ensures { (files : Files) (v : TreeState) (first now : List TreeState)
        → IsStagingRun v first now → IsRunOfStagedChange files v first now }
{}

/// After all actions of an intent no file is staged, if before the actions only one file for each
/// of its writes was staged.
pub fn a_change_leaves_nothing_staged()
    ensures { (intent : Intent) (contents : List (List ℕ)) (files : Files)
        → HasFreeNamesAndUnrepeatedWrites intent → length contents ≡ length intent.writes
        → HasNoStagedNames files
        → HasNoStagedNames (files_after_actions intent (files_with_staged 1 contents files)) }
{}
