//! The outcome of every command: its answer, output and files, defined by its arguments and by the
//! files of the tree. The contract of `apk` (`apk_front`) cites these definitions.
//!
//! This is mainly a crate of definitions. The modules of `specs/` are:
//! - `Outcome`: the parts of a command's outcome;
//! - `Words`: the outcome of a command line;
//! - `Commands`: the outcome of each command except `demo`;
//! - `Effect`: what a command reads and changes;
//! - `Version`, `Verify`, `Dump`, `Generate`, `Make`, `OutcomeOfReport`, `Changing`: the outcome of
//!   each command or group of commands;
//! - `Demo`: the outcome of `demo`, with `DemoCount`, `DemoLines` and `DemoReport`: the number of
//!   packages that `demo` makes, the command lines that it runs, and its report;
//! - `Given`: the parts of an outcome that relations specify, and no function computes;
//! - `ChangeEnd`, `Recovers`, `Sound`: cited by laws: how a change ends, which commands recover,
//!   and when a file is a sound container.
//!
//! The functions of this file are laws: they compute nothing, and their contracts say what follows
//! from the definitions, for all arguments and files. The functions of `demo` compute what `demo`
//! needs. The rules are in `docs/commands.md`, in the sections
//! that the heads of the files of `specs/` name.
#![tactic(auto)]

mod demo;

ghost use Rattle.std.specs.Prelude.{◌≡◌, ◌⊎◌, ℕ, true, false, List, None, Some, Result, Ok, Err, IsSome, IsTrue, is_some, not};
ghost use Rattle.base_core.specs.Files.{Files, HasOnlyNamesAmong};
ghost use Rattle.base_core.specs.Listed.{IsSortedListingOfFolder, IsSortedListOfAllNamesInMap};
ghost use Rattle.base_core.specs.Tree.{IsWellFormed, TreeState, files_of};
ghost use Rattle.base_core.specs.declared.cause.Cause.{Cause};
ghost use Rattle.tell_core.specs.change_inputs.Inputs.{database_for};
ghost use Rattle.command_core.specs.Command.{CommandLine};
ghost use Rattle.command_core.specs.declared.command.Applet.{Applet};
ghost use Rattle.engine_core.specs.journal_core.Recovery.{intent_name};
ghost use Rattle.engine_core.specs.journal_core.Staged.{AreJournalPathsFreeAfterReplayIfAny, HasEmptyStageAndFreeJournalPaths, unstaged_files};
ghost use Rattle.tell_core.specs.declared.info.reporting.ReportAndRefusal.{ReportAndRefusal};
ghost use Rattle.make_core.specs.make_info.Reads.{Reads};
ghost use Rattle.outcome.specs.ChangeEnd.{IsChangeEnd, IsChangeEndAfterRecoveryOrIntentRefusal, is_input_refusal};
ghost use Rattle.outcome.specs.Commands.{IsOutcomeWithoutDemo, IsOutcomeOverRecoveredFiles, reads_in};
ghost use Rattle.outcome.specs.Effect.{Changes, Makes, AsksRoot, does_recover, effect_of_arguments, effect_of, output, do_arguments_neither_recover_nor_write, depends_only_on_arguments};
ghost use Rattle.outcome.specs.Make.{files_below};
ghost use Rattle.outcome.specs.Outcome.{Outcome, just_refusal, outcome_without_commit};
ghost use Rattle.outcome.specs.Recovers.{must_recover};
ghost use Rattle.outcome.specs.Sound.{IsSoundFileAt};
ghost use Rattle.outcome.specs.Words.{IsOutcome};
ghost use Rattle.outcome.specs.Work.{fault_of_intent, recovery_fault, files_recovered_if_needed};
ghost use Rattle.report_core.specs.declared.refusal.Refusal.{Refusal};
ghost use Rattle.report_core.specs.declared.refusal.Refusal.TheVariants.{IntentBad, NoDatabase};
ghost use Rattle.root_names.specs.RootNames.{database_name, text_database_name};
ghost use Rattle.tell_core.specs.ReportForCommand.{report_for_command};
ghost use Rattle.words_core.specs.Grammar.{command_of};

use engine_core::{a_choice_exists, a_choice_is_unique};
use gen_core::sound_containers_hold_sound_values;
use make_core::{a_made_index_is_sound, a_made_package_is_sound};

/// A command line has an outcome over any files, if all their names are in a list (`within`).
pub fn an_outcome_exists()
    ensures { (words within : List (List ℕ)) (files : Files)
        → HasOnlyNamesAmong within files → (o : Outcome) × IsOutcome (command_of words) files o }
{
    // A law that the proof needs; it has no effect at run time.
    a_choice_exists();
}

/// A command line has at most one outcome over given files.
pub fn an_outcome_is_unique()
    ensures { (words : List (List ℕ)) (files : Files) (a b : Outcome)
        → IsOutcome (command_of words) files a → IsOutcome (command_of words) files b → a ≡ b }
{
    // A law that the proof needs; it has no effect at run time.
    a_choice_is_unique();
}

/// A command has at most one outcome over the files on which it works, after recovery.
pub fn an_outcome_over_files_is_unique()
    ensures { (command : CommandLine) (files : Files) (a b : Outcome)
        → IsOutcomeOverRecoveredFiles command files a
        → IsOutcomeOverRecoveredFiles command files b → a ≡ b }
{
    // A law that the proof needs; it has no effect at run time.
    a_choice_is_unique();
}

/// A command that only reads leaves the files unchanged, and commits nothing.
pub fn a_command_that_reads_leaves_the_files()
    // All files are unchanged.
    ensures files { (words : List (List ℕ)) (files : Files) (o : Outcome)
        → IsTrue (do_arguments_neither_recover_nor_write (command_of words))
        → IsOutcome (command_of words) files o
        → o.files ≡ files }
    // The outcome commits nothing.
    ensures commits { (words : List (List ℕ)) (files : Files) (o : Outcome)
        → IsTrue (do_arguments_neither_recover_nor_write (command_of words))
        → IsOutcome (command_of words) files o
        → o.commits ≡ false }
{}

/// A command that recovers and then only reads commits nothing. It leaves the recovered files, or
/// the old ones if it cannot recover.
pub fn a_reporting_command_leaves_the_files()
    // The files are the old ones, or those that recovery leaves.
    ensures files { (words : List (List ℕ)) (files : Files) (o : Outcome)
        → effect_of_arguments (command_of words) ≡ AsksRoot → IsOutcome (command_of words) files o
        → (o.files ≡ files) ⊎ (o.files ≡ files_recovered_if_needed AsksRoot files) }
    // The outcome commits nothing.
    ensures commits { (words : List (List ℕ)) (files : Files) (o : Outcome)
        → effect_of_arguments (command_of words) ≡ AsksRoot → IsOutcome (command_of words) files o
        → o.commits ≡ false }
{}

/// A command that makes a file commits exactly if it is not refused.
pub fn a_command_that_makes_commits_unless_refused()
    ensures { (words : List (List ℕ)) (files : Files) (o : Outcome)
        → effect_of_arguments (command_of words) ≡ Makes → IsOutcome (command_of words) files o
        → o.commits ≡ not (is_some o.refusal) }
{}

/// An outcome with a refusal commits nothing.
pub fn a_refusal_commits_nothing()
    ensures { (words : List (List ℕ)) (files : Files) (o : Outcome)
        → IsOutcome (command_of words) files o → IsSome o.refusal → o.commits ≡ false }
{}

/// A command that commits nothing leaves the files unchanged, or as recovery leaves them.
pub fn a_command_that_commits_nothing_leaves_the_files()
    // For a command, and the files on which it works after recovery.
    ensures over { (command : CommandLine) (files : Files) (o : Outcome)
        → IsOutcomeOverRecoveredFiles command files o → o.commits ≡ false → o.files ≡ files }
    // For a command line, whose run may first recover.
    ensures words { (words : List (List ℕ)) (files : Files) (o : Outcome)
        → IsOutcome (command_of words) files o → o.commits ≡ false → (o.files ≡ files)
        ⊎ (o.files ≡ files_recovered_if_needed (effect_of_arguments (command_of words)) files) }
{}

/// These commands recover first, and refuse a corrupt journal entry (intent): the changes `add`,
/// `del`, `upgrade` and `fix`; `mkpkg` and `mkndx`; and the reports `info`, `audit`, `manifest`,
/// `list`, `search` and `policy`. They work on the recovered files, and leave these if they commit
/// nothing. `verify`, `adbdump`, `adbgen`, `version`, `demo`, `--help` and `--version` leave all
/// files unchanged.
pub fn a_command_recovers()
    // `must_recover` lists exactly the applets that recover by their effect.
    ensures recovers { (applet : Applet) → does_recover (effect_of applet) ≡ must_recover applet }
    // A bad intent is refused, and all files are unchanged.
    ensures bad { (words : List (List ℕ)) (command : CommandLine) (files : Files) (o : Outcome)
        (cause : Cause) → command_of words ≡ Ok command → IsTrue (must_recover command.applet)
        → fault_of_intent (files intent_name) ≡ Some cause → IsOutcome (command_of words) files o
        → o ≡ just_refusal files (IntentBad cause) }
    // Without a bad intent the command works on the files that recovery leaves.
    ensures works { (words : List (List ℕ)) (command : CommandLine) (files : Files) (o : Outcome)
        → command_of words ≡ Ok command → IsTrue (must_recover command.applet)
        → fault_of_intent (files intent_name) ≡ None → IsOutcome (command_of words) files o
        → IsOutcomeOverRecoveredFiles command (unstaged_files files) o }
    // The recovered files are left if the command commits nothing.
    ensures leaves { (words : List (List ℕ)) (command : CommandLine) (files : Files) (o : Outcome)
        → command_of words ≡ Ok command → IsTrue (must_recover command.applet)
        → fault_of_intent (files intent_name) ≡ None → IsOutcome (command_of words) files o
        → o.commits ≡ false → o.files ≡ unstaged_files files }
    // The other commands leave all files as they are.
    ensures others { (words : List (List ℕ)) (command : CommandLine) (files : Files) (o : Outcome)
        → command_of words ≡ Ok command → must_recover command.applet ≡ false
        → IsOutcome (command_of words) files o → (o.files ≡ files) × (o.commits ≡ false) }
{}

/// A command that recovers is refused for a bad intent only if the intent is bad. The refusal
/// reports the first test that the intent fails.
pub fn only_a_bad_intent_is_refused_as_one()
    ensures { (words : List (List ℕ)) (files : Files) (o : Outcome) (cause : Cause)
        → does_recover (effect_of_arguments (command_of words)) ≡ true
        → IsOutcome (command_of words) files o
        → o.refusal ≡ Some (IntentBad cause)
        → recovery_fault (effect_of_arguments (command_of words)) files ≡ Some cause }
{}

/// A command that only reports is refused for its input alone. The refusal replaces the report, or
/// follows it.
pub fn a_reporting_command_is_refused_for_its_input()
    // The refusal replaces the report.
    ensures refused { (command : CommandLine) (read : Reads) (refusal : Refusal)
        → report_for_command command read ≡ Err refusal → is_input_refusal refusal ≡ true }
    // The refusal follows the report.
    ensures following_refusal { (command : CommandLine) (read : Reads) (done : ReportAndRefusal)
        (refusal : Refusal)
        → report_for_command command read ≡ Ok done → done.following_refusal ≡ Some refusal
        → is_input_refusal refusal ≡ true }
{}

/// A root is refused with `NoDatabase` only if it has neither a database file nor a text database,
/// and `--initdb` is not given.
pub fn a_root_without_a_database_file_has_no_database()
    ensures { (command : CommandLine) (files : Files)
        → database_for command (reads_in files) ≡ Err NoDatabase
        → (files database_name ≡ None) × (files text_database_name ≡ None)
        × (command.flags.initdb ≡ false) }
{}

/// Each command that changes what is installed ends in one of these ways. A bad intent is refused
/// before all else. A stated fault of its input is refused. The change is refused as unsatisfied
/// exactly if no selection satisfies the new world. Otherwise the first preferred selection (the
/// preferred solution) replaces the packages before. This is committed and reported, unless the
/// packages have a stated fault.
pub fn a_change_takes_the_first_selection_or_is_refused()
    // For a command, and the files on which it works after recovery.
    ensures over { (command : CommandLine) (files : Files) (o : Outcome)
        → effect_of command.applet ≡ Changes → IsOutcomeOverRecoveredFiles command files o
        → IsChangeEnd command files o }
    // For a command line, whose run first recovers.
    ensures words { (words : List (List ℕ)) (command : CommandLine) (files : Files) (o : Outcome)
        → command_of words ≡ Ok command → effect_of command.applet ≡ Changes
        → IsOutcome (command_of words) files o
        → IsChangeEndAfterRecoveryOrIntentRefusal command files o }
{}

/// After a change that is not refused, there is no staged file, and the paths that recovery and the
/// next change write are free. The recovered files before the change must meet the same conditions.
pub fn a_change_leaves_free_paths_for_the_next()
    ensures { (words : List (List ℕ)) (files : Files) (o : Outcome)
        → effect_of_arguments (command_of words) ≡ Changes → IsOutcome (command_of words) files o
        → o.refusal ≡ None
        → HasEmptyStageAndFreeJournalPaths (files_recovered_if_needed Changes files)
        → AreJournalPathsFreeAfterReplayIfAny o.files
        × HasEmptyStageAndFreeJournalPaths (files_recovered_if_needed Changes o.files) }
{}

/// An outcome that depends on the arguments alone has the same refusal and output over all other
/// files, and leaves these. It is that of a usage error, of `version`, of `demo`, of `--help` or of
/// `--version` (`docs/commands.md`, "Words" and the sections of these commands).
pub fn an_outcome_of_arguments_is_the_same_on_every_tree()
    ensures { (words : List (List ℕ)) (files others : Files) (o : Outcome)
        → IsTrue (depends_only_on_arguments (command_of words))
        → IsOutcome (command_of words) files o
        → IsOutcome (command_of words) others (outcome_without_commit o.refusal o.out others) }
{}

/// The list of names that a tree gives for a folder has exactly the names of the tree's files below
/// this folder, in byte order.
pub fn a_listing_of_a_tree_is_that_of_its_files()
    ensures { (folder : List ℕ) (v : TreeState) (names : List (List ℕ))
        → IsSortedListingOfFolder folder v names
        → IsSortedListOfAllNamesInMap (files_below folder (files_of v)) names }
{}

/// The file that `mkpkg` or `mkndx` leaves as its output passes all tests of a container, if it has
/// fewer than 2^64 bytes. This holds for every well-formed state of a tree in which the run begins.
pub fn what_is_made_is_sound()
    ensures { (words : List (List ℕ)) (v : TreeState) (o : Outcome) (name : List ℕ)
        → IsWellFormed v → IsOutcome (command_of words) (files_of v) o → o.refusal ≡ None
        → output words ≡ Some name → IsSoundFileAt name o.files }
{
    // Laws that the proof needs; they have no effect at run time.
    sound_containers_hold_sound_values();
    a_made_package_is_sound();
    a_made_index_is_sound();
}

// Functions and laws of crates on which this one depends, for crates that depend on this one.
pub use demo::{
    add_words, contents_of_demo_file, demo_count, demo_file, demo_line_of_count_and_add_report,
    demo_repositories, mkndx_words, mkpkg_words,
};
pub use gen_core::{
    a_canonical_payload_is_read_back, a_canonical_payload_is_visited_once,
    a_text_is_accepted_exactly_if_a_root_has_it, a_value_overflows_exactly_past_a_limit,
    values_found_in_bytes_are_of_their_table,
};
