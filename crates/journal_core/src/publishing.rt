//! The commit of a stage's intent, which is written as a staged file and moved to its name
//! `lib/apk/intent`. `Stage::publish` calls `publish_intent`.
//! The rules are in `docs/crash-safety.md`, "A change of several files": the lines of `publish` in
//! the example, and in the table of syncs those before and after the rename of the intent.
ghost use Rattle.std.specs.Prelude.{◌≡◌, ◌∷◌, [], ℕ, Bool, List, None, IsSome, OnOk};
ghost use Rattle.base_core.specs.Calls.{HoldsNow, IfObservable};
ghost use Rattle.base_core.specs.Crash.{Since};
ghost use Rattle.base_core.specs.Undone.{IsDurable};
ghost use Rattle.base_core.specs.Files.{Files};
ghost use Rattle.base_core.specs.Tree.{CanCreate, CanRename, files_of};
ghost use Rattle.journal_core.specs.Acting.{stage_with_actions_done, fully_staged_stage};
ghost use Rattle.journal_core.specs.CallCounts.{IsResultExplainedByCounts};
ghost use Rattle.journal_core.specs.Committing.{ChangesOnlyIntentNames, PublishesIntent, HasCommittedIntent, IsCommitting, IsReadyToPublish, HasOnlyAddedFile};
ghost use Rattle.journal_core.specs.Filling.{synced_file};
ghost use Rattle.journal_core.specs.Kept.{KeepsFilesExcept, KeepsCrashMapsExcept, RecoversTo};
ghost use Rattle.journal_core.specs.Quiet.{StateIsUnchanged};
ghost use Rattle.journal_core.specs.Recovery.{Intent, StateDependsOn, files_after_actions, intent_name, stage_name};
ghost use Rattle.journal_core.specs.Staged.{HasEmptyStageAndFreeJournalPaths, IsCarryingOutActions, HasStagedContents};

use crate::calls::{append, create, rename, sync_all_names, sync_file};
use base_core::{Disk, Name, Tree};
use journal_intent::PreparedIntent;

/// Writes the intent as the staged file 0, and moves it to its name. This commits (publishes) the
/// change: from the moment at which the intent is read, a recovery does its actions. The clauses
/// are those of `Stage::publish`, for a stage all of whose files are staged.
pub(crate) fn publish_intent<T: Tree>(tree: &mut T, intent: &PreparedIntent) -> Result<(), Disk>
    // What holds at each moment of the commit, and after it.
    ensures publishing { PublishesIntent (fully_staged_stage intent.now)
        (T.history tree.old) (T.history tree.new) result }
    // Once Ok is returned, the intent is committed, and none of its actions is done.
    ensures acting { IfObservable (T.history tree.old) (λ v. (contents : List (List ℕ))
        (base : Files) → HasStagedContents (fully_staged_stage intent.now) contents None base v
        → OnOk result (HoldsNow (T.history tree.new)
        (IsCarryingOutActions (stage_with_actions_done intent.now 0)
        (files_after_actions intent.now (files_of v))))) }
    // How the tree's counts explain the result.
    ensures counts { IsResultExplainedByCounts (T.counts tree.old) (T.counts tree.new) result }

    // No call is a misuse, if nothing was staged when the staging began (`base`), and the paths of
    // the intent and of the staged files were free.
    ensures proper { IfObservable (T.history tree.old) (λ v. (contents : List (List ℕ))
        (base : Files) → HasStagedContents (fully_staged_stage intent.now) contents None base v
        → HasEmptyStageAndFreeJournalPaths base → (T.counts tree.new).misuses
        ≡ (T.counts tree.old).misuses) }
{
    // A law that the proof needs; it computes nothing.
    intent.names_are_free();
    write_waiting(tree, intent.stage_name(0), intent.file())?;
    enter(tree, intent.stage_name(0), intent.name())
}

/// Makes the staged file 0 with these bytes, and syncs it. It is the intent's file before it is
/// moved to the intent's name; so no crash leaves other bytes under that name.
fn write_waiting<T: Tree>(tree: &mut T, place: &Name, bytes: &[u8]) -> Result<(), Disk>
    // The name is that of the staged file 0.
    requires { place.now ≡ stage_name 0 }
    // From a durable tree without an intent on, each moment is durable, and the state is unchanged.
    ensures moments { IfObservable (T.history tree.old) (λ v. (ignored : List ℕ → Bool)
        → IsDurable (StateDependsOn ignored) v → files_of v intent_name ≡ None
        → Since (StateIsUnchanged ignored v) (T.history tree.old) (T.history tree.new)) }
    // If no intent was read at the call: once Ok is returned, the only change of the tree is
    // the new file with these bytes, which is synced.
    ensures written { IfObservable (T.history tree.old) (λ v. files_of v intent_name ≡ None
        → OnOk result (HoldsNow (T.history tree.new)
        (HasOnlyAddedFile place.now (synced_file bytes.now) v))) }
    // If no intent was read at the start, none is read at any moment.
    ensures unread { IfObservable (T.history tree.old) (λ v. v.names intent_name ≡ None
        → Since (λ w. w.names intent_name ≡ None) (T.history tree.old) (T.history tree.new)) }
    // At each moment the files as read are unchanged under every name except that of this file.
    ensures others { IfObservable (T.history tree.old) (λ v.
        Since (KeepsFilesExcept (λ q. q ≡ place.now) v) (T.history tree.old) (T.history tree.new)) }
    // At each moment a crash leaves every name except that of this file as a crash at the call
    // might have left it.
    ensures maps { IfObservable (T.history tree.old) (λ v.
        Since (KeepsCrashMapsExcept (stage_name 0 ∷ []) v) (T.history tree.old)
        (T.history tree.new)) }
    // Ok is returned only if no file was under the name at the call.
    ensures absent { OnOk result
        (IfObservable (T.history tree.old) (λ v. v.names place.now ≡ None)) }
    // How the tree's counts explain the result.
    ensures counts { IsResultExplainedByCounts (T.counts tree.old) (T.counts tree.new) result }

    // No call is a misuse, if the tree's state allows that the file is made.
    ensures proper { IfObservable (T.history tree.old) (λ v. CanCreate place.now v
        → (T.counts tree.new).misuses ≡ (T.counts tree.old).misuses) }
{
    create(tree, place)?;
    append(tree, place, bytes)?;
    sync_file(tree, place)
}

/// Moves the staged intent to its name. The names are synced before, so that no crash keeps the
/// intent without one of its staged files, and after, so that no crash undoes the publishing. The
/// clauses are those of `publish_intent`, from the moment at which all files are staged.
fn enter<T: Tree>(tree: &mut T, place: &Name, name: &Name) -> Result<(), Disk>
    // The source is the staged file 0.
    requires place { place.now ≡ stage_name 0 }
    // The target is the intent's name.
    requires name { name.now ≡ intent_name }
    // If the durable tree is ready to publish the intent, at each moment a crash leaves an old
    // state, or the state with all actions done.
    ensures moments { IfObservable (T.history tree.old) (λ v. (ignored : List ℕ → Bool)
        (intent : Intent) (base : Files) (made : ℕ) → IsDurable (StateDependsOn ignored) v
        → IsReadyToPublish intent base made v
        → Since (IsCommitting ignored (files_after_actions intent base) made v) (T.history tree.old)
        (T.history tree.new)) }
    // If the tree was durable: once Ok is returned, each crash leaves the state with all
    // actions done.
    ensures entered { IfObservable (T.history tree.old) (λ v. (ignored : List ℕ → Bool)
        (intent : Intent) (base : Files) (made : ℕ) → IsDurable (StateDependsOn ignored) v
        → IsReadyToPublish intent base made v → OnOk result (HoldsNow (T.history tree.new)
        (HasCommittedIntent ignored (files_after_actions intent base) made))) }
    // Once Ok is returned, the intent is committed, and none of its actions is done.
    ensures acting { IfObservable (T.history tree.old) (λ v. (intent : Intent) (base : Files)
        (made : ℕ) → IsReadyToPublish intent base made v
        → OnOk result (HoldsNow (T.history tree.new)
        (IsCarryingOutActions (stage_with_actions_done intent 0)
        (files_after_actions intent base)))) }
    // Only the names of the intent and of the staged file 0 have changed.
    ensures names { ChangesOnlyIntentNames (T.history tree.old) (T.history tree.new) }
    // At each moment at which the intent is present, recovery yields the files after all its
    // actions.
    ensures reads { IfObservable (T.history tree.old) (λ v. (intent : Intent) (base : Files)
        (made : ℕ) → IsReadyToPublish intent base made v → Since (λ w. IsSome (w.names intent_name)
        → RecoversTo (files_after_actions intent base) w) (T.history tree.old)
        (T.history tree.new)) }
    // Once Ok is returned, the staged file 0 is gone.
    ensures moved { OnOk result
        (IfObservable (T.history tree.new) (λ w. w.names (stage_name 0) ≡ None)) }
    // How the tree's counts explain the result.
    ensures counts { IsResultExplainedByCounts (T.counts tree.old) (T.counts tree.new) result }

    // No call is a misuse, if the tree's state allows the move of the file.
    ensures proper { IfObservable (T.history tree.old) (λ v. CanRename place.now name.now v
        → (T.counts tree.new).misuses ≡ (T.counts tree.old).misuses) }
{
    sync_all_names(tree)?;
    rename(tree, place, name)?;
    sync_all_names(tree)
}
