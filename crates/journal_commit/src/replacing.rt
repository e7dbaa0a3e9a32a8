//! `replace`, which writes one whole file so that a crash leaves the old file or the new one.
//! The rules are in `docs/crash-safety.md`, "A whole file replaced": the five steps of `replace`,
//! and the points that are proved of it.
ghost use Rattle.std.specs.Prelude.{◌≡◌, ◌⊎◌, ◌≢◌, ◌≤◌, [], ◌∷◌, ℕ, Bool, List, Some, length, OnOk, IsErrOf};
ghost use Rattle.base_core.specs.Calls.{HoldsNow, IfObservable};
ghost use Rattle.base_core.specs.Crash.{Since};
ghost use Rattle.base_core.specs.Undone.{IsDurable};
ghost use Rattle.base_core.specs.Faults.{CountsOnlyRise, CountsNewFaultWithCause, CountsNoNewFaultOrLackOfMemory};
ghost use Rattle.base_core.specs.Tree.{files_of};
ghost use Rattle.journal_commit.specs.NameLengths.{most_replaceable_name_bytes};
ghost use Rattle.journal_core.specs.Filling.{CanAddBothNames, IsNewFileDurablyMoved, IsNewFileReadyToMove};
ghost use Rattle.journal_core.specs.Kept.{IsSyncedAt, KeepsCrashMapsExcept};
ghost use Rattle.journal_core.specs.Reading.{ReadsOldOrReplaced};
ghost use Rattle.journal_core.specs.Recovery.{StateDependsOn, EachCrashLeavesStateOf, intent_name};
ghost use Rattle.journal_core.specs.Replacing.{IgnoresScratchNameButNotIntent, CanAddOutputNames, IsMomentOfReplacing, files_after_replacement, scratch_name_of};

use crate::new_file::NewFile;
use base_core::{Name, Tree, TreeFault, counts_of_consecutive_calls_compose};
use std::alloc::Global;

/// Writes one whole file with these bytes under the name. After a crash at any moment the name has
/// the old file or the new one, and once Ok is returned it has the new one. The new file is made
/// under the scratch name, which is the name and `.apk-tmp`. A file that was under the scratch name
/// is lost, and a crash may leave a part of the new file there.
///
/// # Errors
///
/// `Disk` if a call on the tree failed; then the name has the old file or the new one, and the
/// scratch name may have a part of the new file. `Disk` before anything is written, if the tree can
/// never accept the file under the name. `Memory` before any call on the tree.
pub fn replace<T: Tree>(
    alloc: Global,
    tree: &mut T,
    name: &Name,
    bytes: &[u8],
) -> Result<(), TreeFault>
    // The scratch name, which is eight bytes longer, is not too long for a name.
    requires length { length name.now ≤ most_replaceable_name_bytes }
    // The name is not that of the intent (journal entry).
    requires apart { name.now ≢ intent_name }

    // If the tree is durable, and the scratch name is ignored: at each moment the tree is durable,
    // and a crash leaves a state that a crash at the call might have left, or the new state.
    ensures moments { IfObservable (T.history tree.old) (λ v. (ignored : List ℕ → Bool)
        → IsDurable (StateDependsOn ignored) v → IgnoresScratchNameButNotIntent ignored name.now
        → Since (IsMomentOfReplacing ignored (files_after_replacement name.now bytes.now
        (files_of v)) v)
        (T.history tree.old) (T.history tree.new)) }

    // If the tree is durable at the call, it is durable at the return, whatever is returned.
    ensures is_durable { IfObservable (T.history tree.old) (λ v. (ignored : List ℕ → Bool)
        → IsDurable (StateDependsOn ignored) v → IgnoresScratchNameButNotIntent ignored name.now
        → HoldsNow (T.history tree.new) (IsDurable (StateDependsOn ignored))) }

    // Once Ok is returned, each crash leaves the state of the files with the new file.
    ensures settled { IfObservable (T.history tree.old) (λ v. (ignored : List ℕ → Bool)
        → IsDurable (StateDependsOn ignored) v → IgnoresScratchNameButNotIntent ignored name.now
        → OnOk result (HoldsNow (T.history tree.new)
        (EachCrashLeavesStateOf ignored (files_after_replacement name.now bytes.now
        (files_of v))))) }

    // At each moment the files as read are the old ones, apart from the scratch name, or those with
    // the new file.
    ensures reads { IfObservable (T.history tree.old) (λ v.
        Since (ReadsOldOrReplaced name.now bytes.now (files_of v)) (T.history tree.old)
        (T.history tree.new)) }
    // Once Ok is returned, the files as read are those with the new file.
    ensures ok { IfObservable (T.history tree.old)
        (λ v. OnOk result (HoldsNow (T.history tree.new) (λ w.
        files_of w ≡ files_after_replacement name.now bytes.now (files_of v)))) }

    // At each moment a crash leaves every name except these two as a crash at the call might have
    // left it.
    ensures others { IfObservable (T.history tree.old) (λ v.
        Since (KeepsCrashMapsExcept (name.now ∷ scratch_name_of name.now ∷ []) v)
        (T.history tree.old)
        (T.history tree.new)) }

    // Once Ok is returned, no crash undoes a change of names, and the new file is synced.
    ensures synced { IfObservable (T.history tree.old)
        (λ v. OnOk result (HoldsNow (T.history tree.new) (IsSyncedAt name.now))) }

    // The tree is asked for the name first: either nothing has changed, or the tree has accepted
    // that the file under the scratch name is renamed to this name.
    ensures asked { (T.history tree.new ≡ T.history tree.old)
        ⊎ T.accepts (Some (scratch_name_of name.now)) name.now }
    // Ok is returned only if the tree has accepted this rename.
    ensures accepted { OnOk result (T.accepts (Some (scratch_name_of name.now)) name.now) }

    // If the program is out of memory, no call on the tree was made.
    ensures memory { IsErrOf result TreeFault.Memory → tree.new ≡ tree.old }

    // No count of the tree's faults falls.
    ensures goes_on { CountsOnlyRise (T.counts tree.old) (T.counts tree.new) }
    // An I/O error is returned only if a fault was counted.
    ensures disk { IsErrOf result TreeFault.Disk
        → CountsNewFaultWithCause (T.counts tree.old) (T.counts tree.new) }
    // Ok is returned only if no fault was counted.
    ensures kept { OnOk result (CountsNoNewFaultOrLackOfMemory (T.counts tree.old)
        (T.counts tree.new)) }

    // No call is a misuse, if the name and its scratch name can be added without one name being a
    // folder of another.
    ensures proper { IfObservable (T.history tree.old) (λ v. CanAddOutputNames name.now (files_of v)
        → (T.counts tree.new).misuses ≡ (T.counts tree.old).misuses) }
{
    write_new(alloc, tree, name, bytes)
}

/// Makes the new file under its scratch name and moves it to its name. The clauses are those of
/// `replace`, in the terms of `NewFile`.
fn write_new<T: Tree>(
    alloc: Global,
    tree: &mut T,
    name: &Name,
    bytes: &[u8],
) -> Result<(), TreeFault>
    // The scratch name, which is eight bytes longer, is not too long for a name.
    requires length { length name.now ≤ most_replaceable_name_bytes }
    // The name is not that of the intent (journal entry).
    requires apart { name.now ≢ intent_name }
    // At each moment each crash leaves an old state or the new one.
    ensures moments { IfObservable (T.history tree.old) (λ v.
        Since (IsNewFileReadyToMove (scratch_name_of name.now) name.now bytes.now v)
        (T.history tree.old)
        (T.history tree.new)) }
    // Once Ok is returned, the new file has its name, and no crash undoes this.
    ensures lasting { IfObservable (T.history tree.old) (λ v.
        OnOk result (HoldsNow (T.history tree.new)
        (IsNewFileDurablyMoved (scratch_name_of name.now) name.now bytes.now v))) }
    // At each moment a crash leaves every name except these two as a crash at the call might have
    // left it.
    ensures others { IfObservable (T.history tree.old) (λ v.
        Since (KeepsCrashMapsExcept (name.now ∷ scratch_name_of name.now ∷ []) v)
        (T.history tree.old)
        (T.history tree.new)) }
    // Either nothing has changed, or the tree has accepted the rename from the scratch name.
    ensures asked { (T.history tree.new ≡ T.history tree.old)
        ⊎ T.accepts (Some (scratch_name_of name.now)) name.now }
    // Ok is returned only if the tree has accepted this rename.
    ensures accepted { OnOk result (T.accepts (Some (scratch_name_of name.now)) name.now) }
    // If the program is out of memory, no call on the tree was made.
    ensures memory { IsErrOf result TreeFault.Memory → tree.new ≡ tree.old }
    // No count of the tree's faults falls.
    ensures goes_on { CountsOnlyRise (T.counts tree.old) (T.counts tree.new) }
    // An I/O error is returned only if a fault was counted.
    ensures disk { IsErrOf result TreeFault.Disk
        → CountsNewFaultWithCause (T.counts tree.old) (T.counts tree.new) }
    // Ok is returned only if no fault was counted.
    ensures kept { OnOk result (CountsNoNewFaultOrLackOfMemory (T.counts tree.old)
        (T.counts tree.new)) }
    // No call is a misuse, if both names can be added without one name being a folder of another.
    ensures proper { IfObservable (T.history tree.old) (λ v.
        CanAddBothNames (scratch_name_of name.now) name.now v
        → (T.counts tree.new).misuses ≡ (T.counts tree.old).misuses) }
{
    // A law that the proof needs; it computes nothing.
    counts_of_consecutive_calls_compose();
    let file = NewFile::begin(alloc, tree, name)?;
    file.append(tree, bytes)?;
    file.finish(tree)?;
    Ok(())
}
