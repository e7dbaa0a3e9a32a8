//! `Stage`, the object that carries out a change of several files: it stages the new files, commits
//! the intent (journal entry) in one step, and then does its actions. `journal_commit` calls it.
//! The rules are in `docs/crash-safety.md`, "A change of several files".
ghost use Rattle.std.specs.Prelude.{◌≡◌, ◌≤◌, ◌<◌, ◌+◌, ◌++◌, ◌∷◌, [], ◌^◌, ℕ, Bool, true, false, List, Some, None, length, IfOk, OnOk, OnErr, IsErrOf, IsSome, nat_lt};
ghost use Rattle.journal_intent.specs.adb_schema.Soundness.{container_fault_except_contents};
ghost use Rattle.adb_view.specs.declared.tables.Which.TheVariants.{Intent as IntentTable};
ghost use Rattle.journal_intent.specs.adb_write.Canonical.{counts_at_first_overflow};
ghost use Rattle.base_core.specs.Calls.{HoldsNow, IfObservable};
ghost use Rattle.base_core.specs.Crash.{Since};
ghost use Rattle.base_core.specs.Undone.{IsDurable};
ghost use Rattle.base_core.specs.Files.{Files};
ghost use Rattle.base_core.specs.Tree.{files_of};
ghost use Rattle.base_core.specs.declared.cause.Cause.{Cause};
ghost use Rattle.journal_core.specs.Acting.{CarriesOutActions, IsNextStagedName};
ghost use Rattle.journal_core.specs.CallCounts.{IsResultExplainedByCounts};
ghost use Rattle.journal_core.specs.Committing.{PublishesIntent};
ghost use Rattle.journal_core.specs.Kept.{IsAbsentAfterEachCrash, JournalOnlyShrinks, IsNameOfNextAction, KeepsFilesExcept, KeepsIntentWhileStageShrinks, KeepsCrashMapsExcept, NamesAreDurableExcept, RecoversTo};
ghost use Rattle.journal_core.specs.Quiet.{StateIsUnchanged};
ghost use Rattle.journal_core.specs.Recovery.{EachCrashLeavesStateOf, StateDependsOn, files_after_actions, intent_name, read_intent, stage_name};
ghost use Rattle.journal_core.specs.Staged.{Staging, AreIntentAndStagedPathsFree, HasEmptyStageAndFreeJournalPaths, IsCarryingOutActions, IsOnlyNameOfFile, HasStagedContents, action_count, new_stage_of_removals_and_writes};
ghost use Rattle.journal_intent.specs.FreeNames.{HasFreeNamesAndUnrepeatedWrites};
ghost use Rattle.journal_intent.specs.Intent.{AreDistinctNamesAllowedInIntent};
ghost use Rattle.journal_intent.specs.IntentValue.{intent_of_lists, value_of_intent};

use crate::acting::act;
use crate::calls::{append, create, remove, sync_all_names, sync_file};
use crate::fault::RecoverFault;
use crate::publishing::publish_intent;
use base_core::{Disk, Name, Names, Tree};
use journal_intent::{PreparedIntent, WriteFault, copy_of_names};
use std::alloc::Global;
use std::marker::Model;

/// A change of several files, and how far it is carried out. First the new files are staged. After
/// the commit the actions are done: names are removed, and staged files are moved to their names.
///
/// `begin` and `of_names` allocate all the memory that a stage needs. Each write's file is then
/// begun, appended to and ended, in the order of the writes; `publish` commits all actions in one
/// step; and `apply_one` and `finish` do them. After a fault a stage may only be dropped, and the
/// root is recovered.
#[derive(Drop)]
pub struct Stage {
    /// The intent (journal entry) of the change.
    pub(crate) intent: PreparedIntent,
    /// How many writes have a staged file that is ended, that is, complete and synced.
    pub(crate) staged: usize,
    /// Whether the staged file of the next write is begun and not yet ended.
    pub(crate) is_open: bool,
    /// Whether the intent is published, that is, under its final name `lib/apk/intent`.
    pub(crate) published: bool,
    /// How many of the intent's actions are done: first the removals, then the moves.
    pub(crate) acted: usize,
}

impl Model for Stage {
    ghost use Rattle.std.specs.Prelude.{◌≡◌, ◌<◌, true, length};
    ghost use Rattle.journal_core.specs.Staged.{Staging};

    ghost Value = { Staging };

    ghost view = { λ s. record {
      intent = s.intent;
      staged = s.staged;
      is_open = s.is_open;
      published = s.published;
      acted = s.acted;
    } };

    // If a staged file is begun and not yet ended, it is that of a write whose file is not staged.
    ghost invariant = { λ s. s.is_open ≡ true → s.staged < length s.intent.writes };
}

impl Stage {
    /// A stage of these actions, as `of_names` makes it from copies of the lists.
    ///
    /// # Errors
    ///
    /// Those of `of_names`.
    pub fn begin(alloc: Global, removals: &Names, writes: &Names) -> Result<Stage, WriteFault>
        // The names are allowed in an intent (journal entry).
        requires { AreDistinctNamesAllowedInIntent (removals.now ++ writes.now) }
        // On Ok, the stage is new, with these removals and writes.
        ensures view { IfOk result (λ stage. stage
            ≡ new_stage_of_removals_and_writes removals.now writes.now) }
        // The error for a payload that is too large has the counts at which a limit is exceeded.
        ensures large { (bytes values : ℕ) → IsErrOf result (WriteFault.TooLarge bytes values)
            → counts_at_first_overflow (value_of_intent (intent_of_lists removals.now writes.now))
            ≡ Some (bytes, values) }
        // Ok is returned only if the payload exceeds no limit.
        ensures fits { OnOk result
            (counts_at_first_overflow (value_of_intent
            (intent_of_lists removals.now writes.now)) ≡ None) }
    {
        let removals = copy_of_names(alloc, removals)?;
        let writes = copy_of_names(alloc, writes)?;
        Stage::of_names(alloc, removals, writes)
    }

    /// A stage of these actions, which keeps the lists. It allocates all the memory that it needs,
    /// and calls no tree.
    ///
    /// # Errors
    ///
    /// `TooLarge` exactly if the payload of the intent's container would exceed a limit of the
    /// writer, with the counts there; or `Memory`.
    pub fn of_names(alloc: Global, removals: Names, writes: Names) -> Result<Stage, WriteFault>
        // The names are allowed in an intent (journal entry).
        requires { AreDistinctNamesAllowedInIntent (removals ++ writes) }
        // On Ok, the stage is new, with these removals and writes.
        ensures view { IfOk result (λ stage. stage
            ≡ new_stage_of_removals_and_writes removals writes) }
        // The error for a payload that is too large has the counts at which a limit is exceeded.
        ensures large { (bytes values : ℕ) → IsErrOf result (WriteFault.TooLarge bytes values)
            → counts_at_first_overflow (value_of_intent (intent_of_lists removals writes))
            ≡ Some (bytes, values) }
        // Ok is returned only if the payload exceeds no limit.
        ensures fits { OnOk result
            (counts_at_first_overflow (value_of_intent (intent_of_lists removals writes)) ≡ None) }
    {
        let intent = PreparedIntent::of_names(alloc, removals, writes)?;
        Ok(Stage {
            intent,
            staged: 0,
            is_open: false,
            published: false,
            acted: 0,
        })
    }

    /// The stage of an intent that was found in a file: all its files were staged, it is published,
    /// and none of its actions counts as done, since each may be done twice.
    pub fn found(alloc: Global, file: Vec<u8>) -> Result<Stage, RecoverFault>
        // On Ok, the stage has the intent that the file encodes.
        ensures intent { IfOk result (λ stage. read_intent file.items ≡ Some stage.intent) }
        // On Ok, the intent counts as committed.
        ensures published { IfOk result (λ stage. stage.published ≡ true) }
        // On Ok, no action counts as done.
        ensures none { IfOk result (λ stage. stage.acted ≡ 0) }
        // The cause of a refusal is the first failed test of the intent's container.
        ensures bad { (cause : Cause) → IsErrOf result (RecoverFault.IntentBad cause)
            → container_fault_except_contents IntentTable file.items ≡ Some cause }
        // Ok is returned only if the intent's container passes all tests.
        ensures good { OnOk result (container_fault_except_contents IntentTable file.items ≡ None) }
        // An I/O error is never returned, since no tree is called.
        ensures only { IsErrOf result RecoverFault.Disk → ⊥ }
    {
        let intent = PreparedIntent::of_file(alloc, file)?;
        let staged = intent.writes_len();
        Ok(Stage {
            intent,
            staged,
            is_open: false,
            published: true,
            acted: 0,
        })
    }

    /// Whether an action of the intent is not done yet.
    pub(crate) fn has_more(&self) -> bool
        ensures { result ≡ nat_lt self.now.acted (action_count self.now.intent) }
    {
        // A law that the proof needs; it computes nothing.
        self.intent.names_are_free();
        self.acted < self.intent.removals_len() + self.intent.writes_len()
    }

    /// A law: the names of the stage's actions are free, and no write is repeated. There are fewer
    /// than 2^63 actions.
    pub fn names_are_free(&self)
        // No name belongs to the journal, no write is repeated, and no written name is removed.
        ensures free { HasFreeNamesAndUnrepeatedWrites self.now.intent }
        // The actions can be counted in 64 bits.
        ensures few { action_count self.now.intent < 2 ^ 63 }
    {
        // A law that the proof needs; it computes nothing.
        self.intent.names_are_free();
    }

    /// The name of the next write's staged file: the writes are numbered from 1.
    fn next_name(&self) -> &Name
        // A write is left whose file is not staged.
        requires { self.now.staged < length self.now.intent.writes }
        ensures { IsNextStagedName result.now self.now }
    {
        // A law that the proof needs; it computes nothing.
        self.intent.names_are_free();
        self.intent.stage_name(self.staged + 1)
    }

    /// The name of the staged file that is begun and not yet ended.
    fn open_name(&self) -> &Name
        // A staged file is begun and not yet ended.
        requires { self.now.is_open ≡ true }
        ensures { IsNextStagedName result.now self.now }
    {
        // A law that the proof needs; it computes nothing.
        self.intent.names_are_free();
        self.intent.stage_name(self.staged + 1)
    }

    /// Syncs all names of the tree before the stage's first file is made. So no crash restores the
    /// intent of an older change, which would count that file as one of its own staged files.
    fn sync_before_first<T: Tree>(&self, tree: &mut T) -> Result<(), Disk>
        // From a durable tree on, each moment is durable, and the state is unchanged.
        ensures moments { IfObservable (T.history tree.old) (λ v. (ignored : List ℕ → Bool)
            → IsDurable (StateDependsOn ignored) v
            → Since (StateIsUnchanged ignored v) (T.history tree.old) (T.history tree.new)) }
        // Once Ok is returned, the staged files are as before, and no crash restores an intent.
        ensures staged { IfObservable (T.history tree.old) (λ v. (contents : List (List ℕ))
            (base : Files) → HasStagedContents self.now contents None base v
            → OnOk result (HoldsNow (T.history tree.new)
            (λ w. HasStagedContents self.now contents None base w
            × IsAbsentAfterEachCrash intent_name w))) }
        // At each moment the files as read are unchanged.
        ensures reads { IfObservable (T.history tree.old) (λ v.
            Since (λ w. files_of w ≡ files_of v) (T.history tree.old) (T.history tree.new)) }
        // At each moment a crash leaves the names as a crash at the call might have left them.
        ensures maps { IfObservable (T.history tree.old) (λ v.
            Since (KeepsCrashMapsExcept [] v) (T.history tree.old) (T.history tree.new)) }
        // How the tree's counts explain the result.
        ensures counts { IsResultExplainedByCounts (T.counts tree.old) (T.counts tree.new) result }

        // No call is a misuse.
        ensures proper { IfObservable (T.history tree.old)
            (λ v. (T.counts tree.new).misuses ≡ (T.counts tree.old).misuses) }
    {
        if self.staged == 0 {
            return sync_all_names(tree);
        }
        Ok(())
    }

    /// Makes an empty file for the next write.
    pub fn file_begin<T: Tree>(&mut self, tree: &mut T) -> Result<(), Disk>
        // No staged file is begun and not yet ended.
        requires closed { self.old.is_open ≡ false }
        // A write is left whose file is not staged.
        requires more { self.old.staged < length self.old.intent.writes }

        // If files with the bytes `contents` are staged in a durable tree, each moment is durable,
        // and the state is unchanged.
        ensures moments { IfObservable (T.history tree.old) (λ v. (ignored : List ℕ → Bool)
            (contents : List (List ℕ)) (base : Files) → IsDurable (StateDependsOn ignored) v
            → HasStagedContents self.old contents None base v
            → Since (StateIsUnchanged ignored v) (T.history tree.old) (T.history tree.new)) }
        // Once Ok is returned, the staged files are as before, and the begun one is empty.
        ensures staged { IfObservable (T.history tree.old) (λ v. (contents : List (List ℕ))
            (base : Files) → HasStagedContents self.old contents None base v
            → OnOk result (HoldsNow (T.history tree.new)
            (HasStagedContents self.new contents (Some []) base))) }

        // At each moment, whatever is returned, the files as read are unchanged under every name
        // except that of the new staged file.
        ensures others { IfObservable (T.history tree.old) (λ v.
            Since (KeepsFilesExcept (λ q. q ≡ stage_name (self.old.staged + 1)) v)
            (T.history tree.old) (T.history tree.new)) }
        // At each moment a crash leaves every name except that of the new staged file as a crash at
        // the call might have left it.
        ensures maps { IfObservable (T.history tree.old) (λ v.
            Since (KeepsCrashMapsExcept (stage_name (self.old.staged + 1) ∷ []) v)
            (T.history tree.old) (T.history tree.new)) }
        // On Ok, the stage has a staged file that is begun and not yet ended; nothing else changes.
        ensures view { OnOk result (self.new ≡ record self.old { is_open = true }) }
        // An error leaves the stage as it was.
        ensures err { OnErr result (self.new ≡ self.old) }
        // How the tree's counts explain the result.
        ensures counts { IsResultExplainedByCounts (T.counts tree.old) (T.counts tree.new) result }

        // No call is a misuse, if nothing was staged when the staging began (`base`), and the paths
        // of the intent and of the staged files were free.
        ensures proper { IfObservable (T.history tree.old) (λ v. (contents : List (List ℕ))
            (base : Files) → HasStagedContents self.old contents None base v
            → HasEmptyStageAndFreeJournalPaths base
            → (T.counts tree.new).misuses ≡ (T.counts tree.old).misuses) }
    {
        self.sync_before_first(tree)?;
        create(tree, self.next_name())?;
        self.is_open = true;
        Ok(())
    }

    /// Adds bytes at the end of the staged file that is begun and not yet ended.
    pub fn file_append<T: Tree>(&mut self, tree: &mut T, piece: &[u8]) -> Result<(), Disk>
        // A staged file is begun and not yet ended.
        requires { self.old.is_open ≡ true }

        // If the staged file that is begun has the bytes `so_far` in a durable tree, each moment is
        // durable, and the state is unchanged.
        ensures moments { IfObservable (T.history tree.old) (λ v. (ignored : List ℕ → Bool)
            (contents : List (List ℕ)) (so_far : List ℕ) (base : Files)
            → IsDurable (StateDependsOn ignored) v
            → HasStagedContents self.old contents (Some so_far) base v
            → Since (StateIsUnchanged ignored v) (T.history tree.old) (T.history tree.new)) }
        // Once Ok is returned, the begun file has the bytes `so_far`, followed by the piece.
        ensures staged { IfObservable (T.history tree.old) (λ v. (contents : List (List ℕ))
            (so_far : List ℕ) (base : Files)
            → HasStagedContents self.old contents (Some so_far) base v
            → OnOk result (HoldsNow (T.history tree.new)
            (HasStagedContents self.new contents (Some (so_far ++ piece.now)) base))) }

        // If the begun file is under no other name, the files as read are unchanged, at each
        // moment, under every name except its own.
        ensures others { IfObservable (T.history tree.old) (λ v.
            IsOnlyNameOfFile (stage_name (self.old.staged + 1)) v
            → Since (KeepsFilesExcept (λ q. q ≡ stage_name (self.old.staged + 1)) v)
            (T.history tree.old) (T.history tree.new)) }
        // At each moment a crash leaves the names as a crash at the call might have left them.
        ensures maps { IfObservable (T.history tree.old) (λ v.
            Since (KeepsCrashMapsExcept [] v) (T.history tree.old) (T.history tree.new)) }
        // On Ok, the stage is as it was.
        ensures view { OnOk result (self.new ≡ self.old) }
        // An error leaves the stage as it was.
        ensures err { OnErr result (self.new ≡ self.old) }
        // How the tree's counts explain the result.
        ensures counts { IsResultExplainedByCounts (T.counts tree.old) (T.counts tree.new) result }

        // No call is a misuse.
        ensures proper { IfObservable (T.history tree.old) (λ v. (contents : List (List ℕ))
            (so_far : List ℕ) (base : Files)
            → HasStagedContents self.old contents (Some so_far) base v
            → (T.counts tree.new).misuses ≡ (T.counts tree.old).misuses) }
    {
        append(tree, self.open_name(), piece)
    }

    /// Ends the staged file that is begun: its bytes are synced, so that no crash changes them.
    pub fn file_end<T: Tree>(&mut self, tree: &mut T) -> Result<(), Disk>
        // A staged file is begun and not yet ended.
        requires { self.old.is_open ≡ true }

        // If the staged file that is begun has the bytes `so_far` in a durable tree, each moment is
        // durable, and the state is unchanged.
        ensures moments { IfObservable (T.history tree.old) (λ v. (ignored : List ℕ → Bool)
            (contents : List (List ℕ)) (so_far : List ℕ) (base : Files)
            → IsDurable (StateDependsOn ignored) v
            → HasStagedContents self.old contents (Some so_far) base v
            → Since (StateIsUnchanged ignored v) (T.history tree.old) (T.history tree.new)) }
        // Once Ok is returned, the begun file is ended: it is the last of the staged files.
        ensures staged { IfObservable (T.history tree.old) (λ v. (contents : List (List ℕ))
            (so_far : List ℕ) (base : Files)
            → HasStagedContents self.old contents (Some so_far) base v
            → OnOk result (HoldsNow (T.history tree.new)
            (HasStagedContents self.new (contents ++ so_far ∷ []) None base))) }

        // At each moment, whatever is returned, the files as read are unchanged.
        ensures others { IfObservable (T.history tree.old) (λ v.
            Since (λ w. files_of w ≡ files_of v) (T.history tree.old) (T.history tree.new)) }
        // At each moment a crash leaves the names as a crash at the call might have left them.
        ensures maps { IfObservable (T.history tree.old) (λ v.
            Since (KeepsCrashMapsExcept [] v) (T.history tree.old) (T.history tree.new)) }
        // On Ok, one more write has its staged file, and no staged file is begun.
        ensures view { OnOk result
            (self.new ≡ record self.old { staged = self.old.staged + 1; is_open = false }) }
        // An error leaves the stage as it was.
        ensures err { OnErr result (self.new ≡ self.old) }
        // How the tree's counts explain the result.
        ensures counts { IsResultExplainedByCounts (T.counts tree.old) (T.counts tree.new) result }

        // No call is a misuse.
        ensures proper { IfObservable (T.history tree.old) (λ v. (contents : List (List ℕ))
            (so_far : List ℕ) (base : Files)
            → HasStagedContents self.old contents (Some so_far) base v
            → (T.counts tree.new).misuses ≡ (T.counts tree.old).misuses) }
    {
        sync_file(tree, self.open_name())?;
        self.staged += 1;
        self.is_open = false;
        Ok(())
    }

    /// Publishes (commits) the intent: it is written as the staged file 0, and moved to its name
    /// `lib/apk/intent`. No action of the intent is done yet.
    pub fn publish<T: Tree>(&mut self, tree: &mut T) -> Result<(), Disk>
        // No staged file is begun and not yet ended.
        requires closed { self.old.is_open ≡ false }
        // All writes have their staged files.
        requires all { self.old.staged ≡ length self.old.intent.writes }

        // At each moment a crash leaves an old state or the state with all actions done. Once
        // Ok is returned, each crash leaves the state with all actions done.
        ensures publishing { PublishesIntent self.old (T.history tree.old)
            (T.history tree.new) result }
        // Once Ok is returned, the intent is committed, and none of its actions is done.
        ensures acting { IfObservable (T.history tree.old) (λ v. (contents : List (List ℕ))
            (base : Files) → HasStagedContents self.old contents None base v
            → OnOk result (HoldsNow (T.history tree.new)
            (IsCarryingOutActions self.new (files_after_actions self.old.intent (files_of v))))) }
        // On Ok, the stage's intent counts as published, and no action counts as done.
        ensures view { OnOk result (self.new ≡ record self.old { published = true; acted = 0 }) }
        // An error leaves the stage as it was.
        ensures err { OnErr result (self.new ≡ self.old) }
        // How the tree's counts explain the result.
        ensures counts { IsResultExplainedByCounts (T.counts tree.old) (T.counts tree.new) result }

        // No call is a misuse, if nothing was staged when the staging began (`base`), and the paths
        // of the intent and of the staged files were free.
        ensures proper { IfObservable (T.history tree.old) (λ v. (contents : List (List ℕ))
            (base : Files) → HasStagedContents self.old contents None base v
            → HasEmptyStageAndFreeJournalPaths base
            → (T.counts tree.new).misuses ≡ (T.counts tree.old).misuses) }
    {
        publish_intent(tree, &self.intent)?;
        self.published = true;
        self.acted = 0;
        Ok(())
    }

    /// Does the next action of the intent. Returns true exactly if an action was left.
    pub fn apply_one<T: Tree>(&mut self, tree: &mut T) -> Result<bool, Disk>
        // The intent is committed.
        requires { self.old.published ≡ true }

        // If the actions that the stage counts as done are done in the tree, the state is unchanged
        // at each moment, and recovery yields the same files.
        ensures actions { CarriesOutActions self.old (T.history tree.old) (T.history tree.new) }
        // Once Ok is returned, all actions that the stage counts as done are done in the tree,
        // and recovery yields the same files as at the call.
        ensures acting { IfObservable (T.history tree.old) (λ v. (files : Files)
            → IsCarryingOutActions self.old files v
            → OnOk result (HoldsNow (T.history tree.new) (IsCarryingOutActions self.new files))) }

        // At each moment the intent is unchanged, and each staged file is unchanged or gone.
        ensures waiting { IfObservable (T.history tree.old) (λ v.
            Since (KeepsIntentWhileStageShrinks v) (T.history tree.old) (T.history tree.new)) }

        // Whatever is returned, in the newest state only the names of its action have changed: the
        // removed name, or the written name and that of its staged file.
        ensures others { IfObservable (T.history tree.old) (λ v. HoldsNow (T.history tree.new)
            (KeepsFilesExcept (IsNameOfNextAction self.old.intent self.old.acted) v)) }

        // On Ok, true is returned exactly if an action was left at the call.
        ensures answer { IfOk result
            (λ was_left. was_left ≡ nat_lt self.old.acted (action_count self.old.intent)) }
        // If an action is left, Ok counts one more action as done.
        ensures more { self.old.acted < action_count self.old.intent
            → OnOk result (self.new ≡ record self.old { acted = self.old.acted + 1 }) }
        // If no action is left, stage and tree are unchanged.
        ensures none_left { action_count self.old.intent ≤ self.old.acted
            → OnOk result (self.new ≡ self.old) × (tree.new ≡ tree.old) }
        // An error leaves the stage as it was.
        ensures err { OnErr result (self.new ≡ self.old) }
        // How the tree's counts explain the result.
        ensures counts { IsResultExplainedByCounts (T.counts tree.old) (T.counts tree.new) result }

        // No call is a misuse, if the paths of the intent and of the staged files are free among
        // `files`, which recovery yields.
        ensures proper { IfObservable (T.history tree.old) (λ v. (files : Files)
            → IsCarryingOutActions self.old files v → AreIntentAndStagedPathsFree files
            → (T.counts tree.new).misuses ≡ (T.counts tree.old).misuses) }
    {
        let acted = act(&self.intent, self.acted, tree)?;
        let was_left = self.acted < acted;
        self.acted = acted;
        Ok(was_left)
    }

    /// Makes all changes of names durable after the last action, and then removes the intent.
    pub fn finish<T: Tree>(&mut self, tree: &mut T) -> Result<(), Disk>
        // The intent is committed.
        requires published { self.old.published ≡ true }
        // All actions are done.
        requires all { self.old.acted ≡ action_count self.old.intent }

        // If the tree is durable and the stage's actions are done in it, each moment is durable,
        // and the state is unchanged.
        ensures moments { IfObservable (T.history tree.old) (λ v. (ignored : List ℕ → Bool)
            (files : Files) → IsDurable (StateDependsOn ignored) v
            → IsCarryingOutActions self.old files v
            → Since (StateIsUnchanged ignored v) (T.history tree.old) (T.history tree.new)) }
        // Once Ok is returned, each crash leaves the state of the actions done.
        ensures settled { IfObservable (T.history tree.old) (λ v. (ignored : List ℕ → Bool)
            (files : Files) → IsDurable (StateDependsOn ignored) v
            → IsCarryingOutActions self.old files v
            → OnOk result (HoldsNow (T.history tree.new) (EachCrashLeavesStateOf ignored files))) }
        // Once Ok is returned, the files as read are those that recovery yielded at the call
        // (`files`), and no intent is read.
        ensures files { IfObservable (T.history tree.old) (λ v. (files : Files)
            → IsCarryingOutActions self.old files v → OnOk result (HoldsNow (T.history tree.new)
            (λ w. (files_of w ≡ files) × (w.names intent_name ≡ None)))) }

        // Whether the tree is durable or not, recovery of the files as read yields the same files
        // at each moment.
        ensures reads { IfObservable (T.history tree.old) (λ v. (files : Files)
            → IsCarryingOutActions self.old files v
            → Since (RecoversTo files) (T.history tree.old) (T.history tree.new)) }

        // If the intent is present at the call: at each moment at which it is absent, no crash
        // undoes a change of another name than the intent's.
        ensures last { IfObservable (T.history tree.old) (λ v. IsSome (v.names intent_name)
            → Since (λ w. w.names intent_name ≡ None → NamesAreDurableExcept (intent_name ∷ []) w)
            (T.history tree.old) (T.history tree.new)) }
        // Once Ok is returned, no crash restores the intent.
        ensures gone { OnOk result (IfObservable (T.history tree.new)
            (IsAbsentAfterEachCrash intent_name)) }

        // At each moment the intent and each staged file are unchanged or gone.
        ensures waiting { IfObservable (T.history tree.old) (λ v.
            Since (JournalOnlyShrinks v) (T.history tree.old) (T.history tree.new)) }
        // In the newest state, the file as read under each name except the intent's is unchanged.
        ensures others { IfObservable (T.history tree.old) (λ v. HoldsNow (T.history tree.new)
            (KeepsFilesExcept (λ q. q ≡ intent_name) v)) }
        // At each moment, the file as read under each name except the intent's is unchanged.
        ensures shown { IfObservable (T.history tree.old) (λ v.
            Since (KeepsFilesExcept (λ q. q ≡ intent_name) v)
            (T.history tree.old) (T.history tree.new)) }
        // The stage is unchanged, whatever is returned.
        ensures view { self.new ≡ self.old }
        // How the tree's counts explain the result.
        ensures counts { IsResultExplainedByCounts (T.counts tree.old) (T.counts tree.new) result }

        // No call is a misuse.
        ensures proper { IfObservable (T.history tree.old)
            (λ v. (T.counts tree.new).misuses ≡ (T.counts tree.old).misuses) }
    {
        sync_all_names(tree)?;
        remove(tree, self.intent.name())?;
        sync_all_names(tree)
    }
}

/// Does all actions that are left of a stage whose intent is published. The clauses are those of
/// `Stage::apply_one`, for all these actions.
pub fn apply_all<T: Tree>(stage: &mut Stage, tree: &mut T) -> Result<(), Disk>
    // The intent is committed.
    requires published { stage.old.published ≡ true }
    // No more actions count as done than there are.
    requires within { stage.old.acted ≤ action_count stage.old.intent }
    // If the actions that the stage counts as done are done in the tree, the state is unchanged at
    // each moment, and recovery yields the same files.
    ensures actions { CarriesOutActions stage.old (T.history tree.old) (T.history tree.new) }
    // Once Ok is returned, all actions that the stage counts as done are done in the tree, and
    // recovery yields the same files as at the call.
    ensures acting { IfObservable (T.history tree.old) (λ v. (files : Files)
        → IsCarryingOutActions stage.old files v
        → OnOk result (HoldsNow (T.history tree.new) (IsCarryingOutActions stage.new files))) }
    // At each moment the intent is unchanged, and each staged file is unchanged or gone.
    ensures waiting { IfObservable (T.history tree.old) (λ v.
        Since (KeepsIntentWhileStageShrinks v) (T.history tree.old) (T.history tree.new)) }
    // On Ok, all actions of the intent count as done.
    ensures all { OnOk result (stage.new.acted ≡ action_count stage.new.intent) }
    // On Ok, the intent still counts as committed.
    ensures published { OnOk result (stage.new.published ≡ true) }
    // How the tree's counts explain the result.
    ensures counts { IsResultExplainedByCounts (T.counts tree.old) (T.counts tree.new) result }

    // No call is a misuse, if the paths of the intent and of the staged files are free among
    // `files`, which recovery yields.
    ensures proper { IfObservable (T.history tree.old) (λ v. (files : Files)
        → IsCarryingOutActions stage.old files v → AreIntentAndStagedPathsFree files
        → (T.counts tree.new).misuses ≡ (T.counts tree.old).misuses) }
{
    while stage.has_more() {
        stage.apply_one(tree)?;
    }
    Ok(())
}
