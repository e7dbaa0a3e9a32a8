//! Laws on the definitions of a change, which `engine_core` and the crates of laws call. The rules
//! are in `docs/commands.md`, "`add` and `del`", and in `docs/crash-safety.md`, "A change of
//! several files".

ghost use Rattle.std.specs.Prelude.{◌≡◌, ◌<◌, ◌++◌, ℕ, false, List, All, None, Ok, Option, length, map};
ghost use Rattle.base_core.specs.Files.{Files, HasOnlyNamesAmong};
ghost use Rattle.base_core.specs.Name.{IsName};
ghost use Rattle.package_changes.specs.own_core.FileChange.{FileChange};
ghost use Rattle.package_changes.specs.own_core.FilesAfter.{DatabaseAndWorldAfter, files_after_change};
ghost use Rattle.change_inputs.specs.Inputs.{Inputs, inputs_of};
ghost use Rattle.change_outcome.specs.ChangeOutcome.{ChangeDone, ChangeWishes, IsFirstClashOfChange, intent_of_change, bytes_or_empty_under, change_or_refusal, has_actions, database_and_world_after_change};
ghost use Rattle.command_core.specs.Command.{CommandLine};
ghost use Rattle.db_core.specs.Members.{Listing};
ghost use Rattle.journal_core.specs.Recovery.{files_after_actions};
ghost use Rattle.journal_core.specs.Staged.{HasEmptyStageAndFreeJournalPaths, HasNoStagedNames, files_with_staged};
ghost use Rattle.journal_core.specs.journal_intent.Intent.{AreDistinctNamesAllowedInIntent, intent_name};
ghost use Rattle.journal_core.specs.journal_intent.IntentValue.{intent_of_lists};
ghost use Rattle.change_inputs.specs.make_info.Reads.{Reads};
ghost use Rattle.package_changes.specs.Changes.{Replacement};
ghost use Rattle.package_changes.specs.path_clashes.Clash.{NamePair};
ghost use Rattle.change_outcome.specs.Leading.{CanStageActionsLeadingToFiles, exclusive_write_count_limit};
ghost use Rattle.change_outcome.specs.Made.{IsChangeMade};
ghost use Rattle.change_outcome.specs.Premises.{OldAndAddedPackagesListNoReservedPath, AreDatabaseAndWorldReadFromFiles};

// ---- what is read

/// If each read finds the file of these files, the database's file and world's text among the
/// inputs of a change are those of these files.
pub fn what_is_read_of_a_root_is_in_the_tree()
    ensures { (command : CommandLine) (read : Reads) (inputs : Inputs) (files : Files)
        → ((n : ℕ) (name : List ℕ) → read n name ≡ files name)
        → inputs_of command read ≡ Ok inputs → AreDatabaseAndWorldReadFromFiles files inputs.root }
{}

// ---- what is done

/// Suppose that the names `removals` are removed, and that for each name of `writes` the bytes
/// which `after` has under it are staged, numbered from 1. Then the actions lead from `files` to
/// exactly the files `after`, under the premises of *CanStageActionsLeadingToFiles*.
pub fn actions_lead_to_given_files()
    ensures { (removals writes : List (List ℕ)) (files after : Files)
        → CanStageActionsLeadingToFiles removals writes files after
        → files_after_actions (intent_of_lists removals writes)
        (files_with_staged 1 (map (bytes_or_empty_under after) writes) files) ≡ after }
{}

/// The actions of a change lead to the files of its definition, if the bytes which these files have
/// are staged, numbered from 1. `bytes_of` gives the bytes of a package's file.
pub fn the_actions_of_a_change_lead_to_its_files()
    ensures { (inputs : Inputs) (change : FileChange) (bytes_of : Listing → List ℕ)
        (database : List ℕ) (files : Files)
        → OldAndAddedPackagesListNoReservedPath change
        → AreDatabaseAndWorldReadFromFiles files inputs.root
        → HasNoStagedNames files
        → let records = database_and_world_after_change inputs database in
        let actions = intent_of_change inputs change files records in
        let after = files_after_change change bytes_of records files in
        length actions.writes < exclusive_write_count_limit
        → files_after_actions actions
        (files_with_staged 1 (map (bytes_or_empty_under after) actions.writes) files) ≡ after }
{}

/// Each name that a change removes or writes may be in an intent (journal entry), and none is
/// repeated.
pub fn the_names_of_a_change_may_be_changed()
    ensures { (inputs : Inputs) (change : FileChange) (files : Files)
        (records : DatabaseAndWorldAfter)
        → OldAndAddedPackagesListNoReservedPath change
        → let actions = intent_of_change inputs change files records in
        All IsName actions.removals → All IsName actions.writes
        → AreDistinctNamesAllowedInIntent (actions.removals ++ actions.writes) }
{}

/// A change that removes and writes nothing leaves the files as they are.
pub fn a_change_that_writes_nothing_leaves_the_files()
    // For the files that the definition gives after a change.
    ensures actions { (inputs : Inputs) (change : FileChange) (bytes_of : Listing → List ℕ)
        (database : List ℕ) (files : Files) → AreDatabaseAndWorldReadFromFiles files inputs.root
        → has_actions (intent_of_change inputs change files
        (database_and_world_after_change inputs database)) ≡ false
        → files_after_change change bytes_of
        (database_and_world_after_change inputs database) files ≡ files }
    // For the result of a change that is not refused.
    ensures done { (inputs : Inputs) (r : Replacement) (wishes : ChangeWishes) (read : Reads)
        (clash : Option NamePair) (files : Files) (done : ChangeDone)
        → change_or_refusal inputs r wishes read clash files ≡ Ok done
        → AreDatabaseAndWorldReadFromFiles files inputs.root → done.commits ≡ false → done.files
        ≡ files }
{}

// ---- tests

/// A change that is not refused passes each test: no added package lists a reserved path, no name
/// is a folder of another, no path is contested, and no limit of the writer is exceeded.
pub fn a_change_that_is_made_passes_each_test()
    ensures { (inputs : Inputs) (r : Replacement) (wishes : ChangeWishes) (read : Reads)
        (clash : Option NamePair) (files : Files) (done : ChangeDone)
        → change_or_refusal inputs r wishes read clash files ≡ Ok done
        → IsChangeMade inputs r wishes read clash files done }
{}

/// If the paths of the journal entry (intent) and of staged files are free before a change, they
/// are free after it, for each later change. And a change leaves no new journal entry.
pub fn a_change_keeps_paths_free()
    // The paths of the next stage are free after the change, if they were before it.
    ensures room { (inputs : Inputs) (r : Replacement) (wishes : ChangeWishes) (read : Reads)
        (clash : Option NamePair) (files : Files) (done : ChangeDone)
        → change_or_refusal inputs r wishes read clash files ≡ Ok done
        → IsFirstClashOfChange inputs r wishes read files clash
        → HasEmptyStageAndFreeJournalPaths files → HasEmptyStageAndFreeJournalPaths done.files }
    // If there was no intent before the change, there is none after it.
    ensures intent { (inputs : Inputs) (r : Replacement) (wishes : ChangeWishes) (read : Reads)
        (clash : Option NamePair) (files : Files) (done : ChangeDone)
        → change_or_refusal inputs r wishes read clash files ≡ Ok done
        → files intent_name ≡ None → done.files intent_name ≡ None }
{}

/// A change has one first clash of names, or none, over files under finitely many names.
pub fn a_change_has_a_first_clash_or_none()
    // Any two first clashes of a change over the same files are equal.
    ensures one { (inputs : Inputs) (r : Replacement) (wishes : ChangeWishes) (read : Reads)
        (files : Files) (a b : Option NamePair)
        → IsFirstClashOfChange inputs r wishes read files a
        → IsFirstClashOfChange inputs r wishes read files b → a ≡ b }
    // There is a first clash, or it is None, if all names of the files are in the list `within`.
    ensures exists { (inputs : Inputs) (r : Replacement) (wishes : ChangeWishes) (read : Reads)
        (within : List (List ℕ)) (files : Files) → HasOnlyNamesAmong within files
        → (clash : Option NamePair) × IsFirstClashOfChange inputs r wishes read files clash }
{}
