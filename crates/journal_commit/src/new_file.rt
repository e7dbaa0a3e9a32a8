//! `NewFile`: a new file that is made piece by piece under a scratch name, and then replaces the
//! file of another name. `replace`, and crates that write outputs piece by piece, use it.
//! The rules are in `docs/crash-safety.md`, "A whole file replaced", the five steps of
//! `replace`.
ghost use Rattle.std.specs.Prelude.{◌≡◌, ◌⊎◌, ◌≢◌, ◌≤◌, ◌++◌, [], ◌∷◌, ℕ, List, Some, length, IfOk, OnOk, IsErrOf};
ghost use Rattle.base_core.specs.Calls.{HoldsNow, IfObservable};
ghost use Rattle.base_core.specs.Crash.{Since};
ghost use Rattle.base_core.specs.Faults.{CountsOnlyRise, CountsNewFaultWithCause, CountsNoNewFaultOrLackOfMemory};
ghost use Rattle.base_core.specs.Tree.{TreeState, CanRename};
ghost use Rattle.journal_commit.specs.NameLengths.{most_replaceable_name_bytes};
ghost use Rattle.journal_commit.specs.NewFilePieces.{OnlyScratchHasChanged, IsNewFile};
ghost use Rattle.journal_core.specs.CallCounts.{IsResultExplainedByCounts};
ghost use Rattle.journal_core.specs.Filling.{HasChangedOnlyByNewFile, IsNewFileReadyToMove, IsNewFileDurablyMoved, CanAddName, CanAddBothNames, synced_file};
ghost use Rattle.journal_core.specs.Kept.{KeepsCrashMapsExcept};
ghost use Rattle.journal_core.specs.Recovery.{intent_name};
ghost use Rattle.journal_core.specs.Replacing.{scratch_name_of};

use base_core::{Disk, Name, Tree, TreeFault, counts_of_consecutive_calls_compose};
use journal_core::calls::{append, create, remove, rename, sync_all_names, sync_file};
use journal_core::check_target;
use std::alloc::{AllocError, Global};
use std::marker::Model;

/// A new file that is made under the scratch name of the file that it replaces. It is begun,
/// appended to any number of times, and finished. After a fault it may only be dropped: the scratch
/// name may have a part of the file then.
#[derive(Drop)]
pub struct NewFile<'a> {
    /// The name of the file that is replaced.
    name: &'a Name,
    /// The name under which the new file is made: the name and `.apk-tmp`.
    scratch: Name,
}

impl<'a> Model for NewFile<'a> {
    ghost use Rattle.std.specs.Prelude.{◌≡◌, ℕ, List};
    ghost use Rattle.journal_core.specs.Replacing.{scratch_name_of};

    // Contracts see a new file as the name of the file that it replaces.
    ghost Value = { List ℕ };

    ghost view = { λ file. file.name.now };

    // The scratch name is that name, followed by `.apk-tmp`.
    ghost invariant = { λ file. file.scratch ≡ scratch_name_of file.name.now };
}

impl<'a> NewFile<'a> {
    /// Begins a new file, which is empty. A file that was there under the scratch name is lost.
    ///
    /// # Errors
    ///
    /// `Disk` if a call on the tree failed, or if the tree can never accept the file under the
    /// name; in the latter case nothing is written. `Memory` before any call on the tree.
    pub fn begin<T: Tree>(
        alloc: Global,
        tree: &mut T,
        name: &'a Name,
    ) -> Result<NewFile<'a>, TreeFault>
        // The scratch name, which is eight bytes longer, is not too long for a name.
        requires { length name.now ≤ most_replaceable_name_bytes }
        // On Ok, the new file is to replace the file of this name.
        ensures name { IfOk result (λ file. file ≡ name.now) }
        // On Ok, a new file was made under the scratch name, and has no bytes.
        ensures begun { OnOk result (IsNewFile (scratch_name_of name.now) [] (T.history tree.old)
            (T.history tree.new)) }
        // Whatever is returned, only the file under the scratch name has changed.
        ensures only { OnlyScratchHasChanged (scratch_name_of name.now) (T.history tree.old)
            (T.history tree.new) }

        // The tree is asked for the name first: either nothing has changed, or the tree has
        // accepted that the file under the scratch name is renamed to this name.
        ensures asked { (T.history tree.new ≡ T.history tree.old)
            ⊎ T.accepts (Some (scratch_name_of name.now)) name.now }
        // Ok is returned only if the tree has accepted this rename.
        ensures accepted { OnOk result (T.accepts (Some (scratch_name_of name.now)) name.now) }

        // If the program is out of memory, no call on the tree was made.
        ensures memory { IsErrOf result TreeFault.Memory → tree.new ≡ tree.old }

        // No count of the tree's faults falls.
        ensures goes_on { CountsOnlyRise (T.counts tree.old) (T.counts tree.new) }
        // An I/O error is returned only if a fault was counted.
        ensures disk { IsErrOf result TreeFault.Disk
            → CountsNewFaultWithCause (T.counts tree.old) (T.counts tree.new) }
        // Ok is returned only if no fault was counted.
        ensures kept { OnOk result (CountsNoNewFaultOrLackOfMemory (T.counts tree.old)
            (T.counts tree.new)) }

        // No call is a misuse, if the scratch name can be added without one name being a folder of
        // another.
        ensures proper { IfObservable (T.history tree.old) (λ v.
            CanAddName (scratch_name_of name.now) v
            → (T.counts tree.new).misuses ≡ (T.counts tree.old).misuses) }
    {
        let scratch = scratch_name(alloc, name)?;
        begin_scratch(tree, &scratch, name)?;
        Ok(NewFile { name, scratch })
    }

    /// Adds a piece at the end of the file.
    pub fn append<T: Tree>(&self, tree: &mut T, piece: &[u8]) -> Result<(), Disk>
        // On Ok, the piece is added to the bytes so far (`bytes`). `first` is the tree's history
        // when the file was begun.
        ensures appended { (bytes : List ℕ) (first : List TreeState)
            → IsNewFile (scratch_name_of self.now) bytes first (T.history tree.old)
            → OnOk result (IsNewFile (scratch_name_of self.now) (bytes ++ piece.now) first
            (T.history tree.new)) }
        // Whatever is returned, only the file under the scratch name has changed.
        ensures only { (bytes : List ℕ) (first : List TreeState)
            → IsNewFile (scratch_name_of self.now) bytes first (T.history tree.old)
            → OnlyScratchHasChanged (scratch_name_of self.now) first (T.history tree.new) }
        // How the tree's counts explain the result.
        ensures counts { IsResultExplainedByCounts (T.counts tree.old) (T.counts tree.new) result }

        // The call is no misuse, if the file was begun.
        ensures proper { (bytes : List ℕ) (first : List TreeState)
            → IsNewFile (scratch_name_of self.now) bytes first (T.history tree.old)
            → IfObservable first (λ v.
            (T.counts tree.new).misuses ≡ (T.counts tree.old).misuses) }
    {
        append(tree, &self.scratch, piece)
    }

    /// Syncs the new file and moves it from its scratch name to the name of the file that it
    /// replaces.
    pub fn finish<T: Tree>(&self, tree: &mut T) -> Result<(), Disk>
        // The name is not that of the intent.
        requires { self.now ≢ intent_name }
        // At each moment since the file was begun (`first` is the tree's history then), each crash
        // leaves an old state or the new one, whose file has all the `bytes`.
        ensures moments { (bytes : List ℕ) (first : List TreeState)
            → IsNewFile (scratch_name_of self.now) bytes first (T.history tree.old)
            → IfObservable first (λ v. Since (IsNewFileReadyToMove
            (scratch_name_of self.now) self.now bytes v)
            first (T.history tree.new)) }
        // Once Ok is returned, the new file has its name, and no crash undoes this.
        ensures moved { OnOk result ((bytes : List ℕ) (first : List TreeState)
            → IsNewFile (scratch_name_of self.now) bytes first (T.history tree.old)
            → IfObservable first (λ v. HoldsNow (T.history tree.new)
            (IsNewFileDurablyMoved (scratch_name_of self.now) self.now bytes v))) }
        // At each moment a crash leaves every name except these two as a crash at the start might
        // have left it.
        ensures others { (bytes : List ℕ) (first : List TreeState)
            → IsNewFile (scratch_name_of self.now) bytes first (T.history tree.old)
            → IfObservable first (λ v. Since
            (KeepsCrashMapsExcept (self.now ∷ scratch_name_of self.now ∷ []) v) first
            (T.history tree.new)) }
        // How the tree's counts explain the result.
        ensures counts { IsResultExplainedByCounts (T.counts tree.old) (T.counts tree.new) result }

        // No call is a misuse, if the two names can be added without one name being a folder of
        // another.
        ensures proper { (bytes : List ℕ) (first : List TreeState)
            → IsNewFile (scratch_name_of self.now) bytes first (T.history tree.old)
            → IfObservable first (λ v. CanAddBothNames (scratch_name_of self.now) self.now v
            → (T.counts tree.new).misuses ≡ (T.counts tree.old).misuses) }
    {
        // A law that the proof needs; it computes nothing.
        counts_of_consecutive_calls_compose();
        sync_file(tree, &self.scratch)?;
        settle(tree, &self.scratch, self.name)
    }
}

/// The scratch name of an output, under which the new file is made: the output's own name and
/// `.apk-tmp`.
fn scratch_name(alloc: Global, name: &Name) -> Result<Name, AllocError>
    // The scratch name is not too long for a name.
    requires { length name.now ≤ most_replaceable_name_bytes }
    ensures { IfOk result (λ scratch. scratch ≡ scratch_name_of name.now) }
{
    let mut bytes = Vec::from_slice(alloc, name.as_bytes())?;
    bytes.extend_from_slice(b".apk-tmp")?;
    Name::of(alloc, &bytes)
}

/// Asks the tree whether a file can be renamed from the scratch name to the name, and then makes an
/// empty file under the scratch name. The clauses are those of `begin`, for any scratch name.
fn begin_scratch<T: Tree>(tree: &mut T, scratch: &Name, name: &Name) -> Result<(), Disk>
    // Once Ok is returned, an empty new file is under the scratch name.
    ensures begun { OnOk result (IsNewFile scratch.now [] (T.history tree.old)
        (T.history tree.new)) }
    // Whatever is returned, only the file under the scratch name has changed.
    ensures only { OnlyScratchHasChanged scratch.now (T.history tree.old) (T.history tree.new) }
    // Either nothing has changed, or the tree has accepted the rename.
    ensures asked { (T.history tree.new ≡ T.history tree.old)
        ⊎ T.accepts (Some scratch.now) name.now }
    // Ok is returned only if the tree has accepted the rename.
    ensures accepted { OnOk result (T.accepts (Some scratch.now) name.now) }
    // How the tree's counts explain the result.
    ensures counts { IsResultExplainedByCounts (T.counts tree.old) (T.counts tree.new) result }
    // No call is a misuse, if the scratch name can be added without one name being a folder of
    // another.
    ensures proper { IfObservable (T.history tree.old) (λ v. CanAddName scratch.now v
        → (T.counts tree.new).misuses ≡ (T.counts tree.old).misuses) }
{
    // A law that the proof needs; it computes nothing.
    counts_of_consecutive_calls_compose();
    check_target(tree, name, Some(scratch))?;
    create_anew(tree, scratch)
}

/// Makes an empty file under `name`, which is a scratch name. A file that was there is removed.
fn create_anew<T: Tree>(tree: &mut T, name: &Name) -> Result<(), Disk>
    // Once Ok is returned, an empty new file is under this name.
    ensures begun { OnOk result (IsNewFile name.now [] (T.history tree.old)
        (T.history tree.new)) }
    // Whatever is returned, only the file under this name has changed.
    ensures only { OnlyScratchHasChanged name.now (T.history tree.old) (T.history tree.new) }
    // How the tree's counts explain the result.
    ensures counts { IsResultExplainedByCounts (T.counts tree.old) (T.counts tree.new) result }
    // No call is a misuse, if this name can be added without one name being a folder of another.
    ensures proper { IfObservable (T.history tree.old) (λ v. CanAddName name.now v
        → (T.counts tree.new).misuses ≡ (T.counts tree.old).misuses) }
{
    // A law that the proof needs; it computes nothing.
    counts_of_consecutive_calls_compose();
    remove(tree, name)?;
    create(tree, name)
}

/// Moves a synced file to its name, and syncs all names before and after the move. Without the sync
/// before, a crash could keep the move and undo an older change of a name: a state that is neither
/// an old one nor the new one. Without the sync after, a crash could restore the old file after Ok.
fn settle<T: Tree>(tree: &mut T, from: &Name, to: &Name) -> Result<(), Disk>
    // The target is not the intent's name.
    requires { to.now ≢ intent_name }
    // If only the synced file under `from` has changed since the start: at each moment each crash
    // leaves an old state or the new one.
    ensures moments { IfObservable (T.history tree.old) (λ v. (bytes : List ℕ) (start : TreeState)
        → HasChangedOnlyByNewFile from.now (synced_file bytes) start v
        → Since (IsNewFileReadyToMove from.now to.now bytes start) (T.history tree.old) (T.history
        tree.new)) }
    // Once Ok is returned, the new file has its name, and no crash undoes this.
    ensures settled { IfObservable (T.history tree.old) (λ v. (bytes : List ℕ) (start : TreeState)
        → HasChangedOnlyByNewFile from.now (synced_file bytes) start v
        → OnOk result (IfObservable (T.history tree.new)
        (IsNewFileDurablyMoved from.now to.now bytes
        start))) }
    // At each moment a crash leaves every name except these two as a crash at the call might have
    // left it.
    ensures others { IfObservable (T.history tree.old) (λ v.
        Since (KeepsCrashMapsExcept (to.now ∷ from.now ∷ []) v) (T.history tree.old)
        (T.history tree.new)) }
    // How the tree's counts explain the result.
    ensures counts { IsResultExplainedByCounts (T.counts tree.old) (T.counts tree.new) result }

    // No call is a misuse, if the tree's state allows the move of the file.
    ensures proper { IfObservable (T.history tree.old) (λ v. CanRename from.now to.now v
        → (T.counts tree.new).misuses ≡ (T.counts tree.old).misuses) }
{
    sync_all_names(tree)?;
    rename(tree, from, to)?;
    sync_all_names(tree)
}
