//! Laws on lists of runs, stops, crashes and changes by others, which `headline` calls. `v` is the
//! state in which a run begins, and `ignored` are the names ignored at the start of the list. The
//! rules are in `docs/crash-safety.md`, "Recovery", its last two paragraphs.
ghost use Rattle.std.specs.Prelude.{◌≡◌, ℕ, Bool, false, true, List, None, Option, IsSome, IsTrue};
ghost use Rattle.apk_front.specs.Moments.{IsOkRefusedOrOutputFault, HasOutcomeWithoutCommit, IgnoresOutputScratchNameButNotIntent, IsDurableAndLeavesFiles};
ghost use Rattle.base_core.specs.Calls.{HoldsNow};
ghost use Rattle.base_core.specs.Undone.{IsDurable, IsCrashImage};
ghost use Rattle.base_core.specs.Files.{Files};
ghost use Rattle.base_core.specs.Tree.{TreeState, files_of};
ghost use Rattle.apk_front.specs.journal_core.Kept.{IsJournalName};
ghost use Rattle.apk_front.specs.journal_core.Recovery.{EachCrashLeavesStateOf, StateDependsOn, intent_name, state_of};
ghost use Rattle.apk_front.specs.journal_core.Staged.{unstaged_files};
ghost use Rattle.apk_front.specs.outcome.Effect.{does_recover, effect_of_arguments, output, do_arguments_neither_recover_nor_write};
ghost use Rattle.apk_front.specs.outcome.Outcome.{Outcome};
ghost use Rattle.apk_front.specs.outcome.Words.{IsOutcome};
ghost use Rattle.apk_front.specs.outcome.Work.{recovery_fault};
ghost use Rattle.run_lists.specs.Events.{AreNamesAmong, RootEvent, HasNoUnfinishedOutputOrTouchSinceSync, HasNoUnfinishedRunSinceCrash, Reaches, ReachesWithoutCommitOrEdit, ReachesOneCrashState, IsRunWithoutCommit, IsMomentOf, IsOutcomeFrom, IsRunFrom, IsPossibleStop, Run, ignored_after, ignored_during_run, nothing_ignored, ignored_with_all_touched, ignored_with_scratch};
ghost use Rattle.run_lists.specs.Reading.{HasBadIntent, HasOldRecoveredOrOutcomeBytes, ReachesOnlyByRunsWith, IsUnrestrictedRun, HasRecoveredOrOutcomeBytesDurably, IsNoJournalOutputOrIgnoredName, IsNoJournalOrTemporaryName, HoldsAsReadAndAsRecovered, EachCommitPassesTestAtName};
ghost use Rattle.run_lists.specs.Recovered.{ReachesWithNoBadIntentPutByOthers, HasStateOfCrashBeforeOrOutcome, HasSameState, RecoversToStateWithoutRefusal, IsNotRefusedForIntent, EachCrashLeavesNoBadIntent};
ghost use Rattle.run_lists.specs.Safety.{HasStateAsReadOrOutcome, IsAtomicFromOneCrashState, IsCrashSafeAfterAnyEvents};
ghost use Rattle.apk_front.specs.words_core.Grammar.{command_of};

use apk_front::{
    a_change_keeps_paths_free, a_command_that_commits_nothing_leaves_the_files,
    a_command_that_makes_commits_unless_refused, a_command_that_reads_leaves_the_files,
    a_crash_leaves_a_durable_settled_tree, a_crash_leaves_the_old_files_or_those_of_the_outcome,
    a_reporting_command_leaves_the_files, a_state_shows_a_bad_intent,
    an_intent_is_read_from_a_sound_container, an_outcome_is_unique, more_names_may_be_ignored,
    only_a_bad_intent_is_refused_as_one,
};

/// Safety of a run, after any list of runs, stops, crashes and changes by others that a root has
/// seen from a durable tree on. Whether the run ended or was stopped, recovery yields a state from
/// before it, or that of its outcome's files. Once the outcome was answered, recovery yields the
/// latter. If the root had one state before the run, there are just these two.
///
/// `ignored` are names that are ignored from the start, such as scratch names of outputs; on an
/// ordinary root there are none.
pub fn a_run_is_safe_after_any_events()
    // After each list the tree is durable, apart from the names that are ignored then.
    ensures is_durable { (ignored : List ℕ → Bool) (first v : TreeState) (events : List RootEvent)
        → ignored intent_name ≡ false → IsDurable (StateDependsOn ignored) first
        → Reaches first events v
        → IsDurable (StateDependsOn (ignored_after ignored events)) v }

    // So the next run meets the conditions of the clauses of `apk` on crashes, whatever its command
    // line is: the tree is durable, and the scratch name of the run's output is ignored too.
    ensures begins { (ignored : List ℕ → Bool) (first v : TreeState) (events : List RootEvent)
        (words : List (List ℕ)) → ignored intent_name ≡ false
        → IsDurable (StateDependsOn ignored) first
        → Reaches first events v
        → let names = ignored_with_scratch (output words) (ignored_after ignored events) in
        IsDurable (StateDependsOn names) v
        × IgnoresOutputScratchNameButNotIntent (output words) names }

    // On an ordinary root no name is ignored at first. None becomes ignored until a run with an
    // output is stopped, or ends by an I/O error of the tree.
    ensures ordinary { (events : List RootEvent) (q : List ℕ)
        → HasNoUnfinishedOutputOrTouchSinceSync events
        → ignored_after nothing_ignored events q ≡ false }

    // The next run is safe after any such list (*IsCrashSafeRun*).
    ensures safe { (v : TreeState) (run : Run) → IsRunFrom v run → IsCrashSafeAfterAnyEvents v run }

    // Each crash leaves one state, that of the files as read, if each crash did so at the start.
    // Names that are ignored at the start, or become so along the list (`ignored_after`), are left
    // out. This lasts until a run that commits is stopped, or ends by an I/O error of the tree. It
    // holds again after a crash, after a synced change by others, after a commit that was answered,
    // and after an intent was found and its change completed.
    ensures one_state { (ignored : List ℕ → Bool) (first v : TreeState) (events : List RootEvent)
        → ignored intent_name ≡ false → IsDurableAndLeavesFiles ignored (files_of first) first
        → ReachesOneCrashState first events v
        → IsDurableAndLeavesFiles (ignored_after ignored events) (files_of v) v }

    // Suppose that since the last crash or synced change by others no run was stopped, and none
    // ended by an I/O error of the tree. Then each crash leaves one state after the list
    // (*ReachesOneCrashState*). A power cut during a run counts as a stop and then a crash.
    ensures without_pending_run { (first v : TreeState) (events : List RootEvent)
        → Reaches first events v → HasNoUnfinishedRunSinceCrash events
        → ReachesOneCrashState first events v }

    // If each crash leaves one state before the next run, this run is all or nothing (*IsAtomic*).
    ensures atomic { (v : TreeState) (run : Run) → IsRunFrom v run
        → IsAtomicFromOneCrashState v run }
{
    // Laws that the proof needs; they have no effect at run time.
    a_crash_leaves_a_durable_settled_tree();
    more_names_may_be_ignored();
    an_outcome_is_unique();
    a_command_that_makes_commits_unless_refused();
    a_crash_leaves_the_old_files_or_those_of_the_outcome();
}

/// A root keeps one state along events that commit nothing, however often it is recovered, stopped
/// in its recovery, and recovered again.
pub fn a_root_that_commits_nothing_keeps_its_state()
    // Crashes, and runs that commit nothing, ended or stopped, leave the state unchanged, apart
    // from names that others touched.
    ensures again { (ignored : List ℕ → Bool) (v w : TreeState) (events : List RootEvent)
        → IsDurableAndLeavesFiles ignored (files_of v) v → ReachesWithoutCommitOrEdit v events w
        → IsDurableAndLeavesFiles (ignored_with_all_touched events ignored) (files_of v) w }

    // Suppose that two trees come from the same tree by events without a commit. They have the same
    // state, except under the names `names`, which include all names that are ignored along both
    // lists.
    ensures agree { (ignored names : List ℕ → Bool) (v w u : TreeState)
        (events others : List RootEvent) → IsDurableAndLeavesFiles ignored (files_of v) v
        → ReachesWithoutCommitOrEdit v events w → ReachesWithoutCommitOrEdit v others u
        → AreNamesAmong (ignored_with_all_touched events ignored) names
        → AreNamesAmong (ignored_with_all_touched others ignored) names
        → state_of names (files_of w) ≡ state_of names (files_of u) }

    // A run commits nothing if its command only reads.
    ensures readers { (v : TreeState) (run : Run)
        → IsTrue (do_arguments_neither_recover_nor_write (command_of run.words))
        → IsRunWithoutCommit v run }

    // A state of files has, under each name that is not ignored, the recovered file.
    ensures read { (ignored : List ℕ → Bool) (files : Files) (q : List ℕ)
        → ignored q ≡ false → state_of ignored files q ≡ unstaged_files files q }

    // A run that recovers, with an outcome that commits nothing, leaves exactly the recovered files
    // once the outcome is answered, if the intent is not bad.
    ensures recovers { (v : TreeState) (run : Run) → IsRunFrom v run
        → does_recover (effect_of_arguments (command_of run.words)) ≡ true
        → recovery_fault (effect_of_arguments (command_of run.words)) (files_of v) ≡ None
        → IsOkRefusedOrOutputFault run.answer → HasOutcomeWithoutCommit (IsOutcomeFrom v run)
        → HoldsNow run.now (λ w. files_of w ≡ unstaged_files (files_of v)) }
{
    // Laws that the proof needs; they have no effect at run time.
    a_crash_leaves_a_durable_settled_tree();
    an_outcome_is_unique();
    a_command_that_reads_leaves_the_files();
    a_command_that_commits_nothing_leaves_the_files();
}

/// No file is ever temporarily missing: at each moment of a run a name has its old bytes, its
/// recovered ones or the outcome's. The same holds along runs that follow each other without a
/// crash. This excludes the intent's name and temporary names, and needs no file to be synced.
pub fn each_name_keeps_old_recovered_or_new_bytes()
    // At each moment of a run each name has its old bytes, its recovered ones, or those of an
    // outcome that commits. Names of the journal and temporary names are left out.
    ensures moments { (v m : TreeState) (run : Run) (q : List ℕ) → IsRunFrom v run
        → IsMomentOf run m → IsNoJournalOrTemporaryName run q
        → HasOldRecoveredOrOutcomeBytes v run m q }

    // An outcome that commits leaves no file under the intent's name.
    ensures commits { (words : List (List ℕ)) (files : Files) (o : Outcome)
        → IsOutcome (command_of words) files o → o.commits ≡ true → o.files intent_name ≡ None }

    // Suppose that a test of the file under a name holds at first, of the file as read and as
    // recovered, and in each outcome that commits. (An example of a test is that the file exists.)
    // Then the test holds after each run, and at each moment at which a run is stopped between two
    // calls.
    ensures along { (test : Option (List ℕ) → Bool) (q : List ℕ) (first w : TreeState)
        (events : List RootEvent) → (IsJournalName q → ⊥)
        → HoldsAsReadAndAsRecovered test q (files_of first)
        → ReachesOnlyByRunsWith (EachCommitPassesTestAtName test q) first events w
        → HoldsAsReadAndAsRecovered test q (files_of w) }
{
    // Laws that the proof needs; they have no effect at run time.
    a_command_that_reads_leaves_the_files();
    a_reporting_command_leaves_the_files();
    a_change_keeps_paths_free();
    an_intent_is_read_from_a_sound_container();
}

/// If the intent is bad, no run writes anything, whatever its arguments and its answer.
pub fn a_bad_intent_and_all_files_are_kept()
    // A run that finds a bad intent makes no new state of the tree.
    ensures run { (v : TreeState) (run : Run) → IsRunFrom v run → HasBadIntent (files_of v)
        → run.now ≡ run.old }

    // So runs alone, ended or stopped, leave the tree as it was.
    ensures along { (first w : TreeState) (events : List RootEvent) → HasBadIntent (files_of first)
        → ReachesOnlyByRunsWith IsUnrestrictedRun first events w → w ≡ first }
{}

/// The change of an intent that a run finds is durable at each moment of this run at which no
/// intent is read, also if the run is stopped. At such a moment each name has its recovered bytes,
/// or those of an outcome of the run, and each crash leaves exactly these bytes. Names of the
/// journal, of the output and ignored names are left out.
pub fn the_actions_of_an_intent_are_durably_done()
    // v is the state in which the run begins, m a moment of this run, and q a name.
    ensures { (ignored : List ℕ
        → Bool) (first v m : TreeState) (events : List RootEvent) (run : Run)
        → ignored intent_name ≡ false → IsDurable (StateDependsOn ignored) first
        → Reaches first events v → IsRunFrom v run → IsSome (v.names intent_name)
        → IsMomentOf run m → m.names intent_name ≡ None
        → (q : List ℕ) → IsNoJournalOutputOrIgnoredName (ignored_after ignored events) run q
        → HasRecoveredOrOutcomeBytesDurably v run m q }
{
    // Laws that the proof needs; they have no effect at run time.
    a_crash_leaves_a_durable_settled_tree();
    more_names_may_be_ignored();
    an_outcome_is_unique();
    a_command_that_makes_commits_unless_refused();
    a_crash_leaves_the_old_files_or_those_of_the_outcome();
}

/// On a root without a bad intent, no list of events leaves one, if others put none there by an
/// edit. So the next run can recover, and is not refused for an intent.
pub fn no_events_leave_a_bad_intent()
    // If no crash could leave a bad intent at first, none can after the events.
    ensures along { (ignored : List ℕ → Bool) (first v : TreeState) (events : List RootEvent)
        → ignored intent_name ≡ false → IsDurable (StateDependsOn ignored) first
        → EachCrashLeavesNoBadIntent first → ReachesWithNoBadIntentPutByOthers first events v
        → EachCrashLeavesNoBadIntent v }

    // So recovery finds no fault in the intent, whatever the command line is.
    ensures recovers { (v : TreeState) (words : List (List ℕ)) → EachCrashLeavesNoBadIntent v
        → recovery_fault (effect_of_arguments (command_of words)) (files_of v) ≡ None }
    // A run that recovers does not answer that an intent is bad.
    ensures unrefused { (v : TreeState) (run : Run) → IsRunFrom v run
        → does_recover (effect_of_arguments (command_of run.words)) ≡ true
        → EachCrashLeavesNoBadIntent v
        → IsNotRefusedForIntent run }
{
    // Laws that the proof needs; they have no effect at run time.
    a_crash_leaves_a_durable_settled_tree();
    more_names_may_be_ignored();
    a_state_shows_a_bad_intent();
    an_outcome_is_unique();
    a_command_that_makes_commits_unless_refused();
    a_crash_leaves_the_old_files_or_those_of_the_outcome();
    each_name_keeps_old_recovered_or_new_bytes();
    only_a_bad_intent_is_refused_as_one();
}

/// A run that is stopped at any moment is recovered. This holds after any list of events, and
/// however often crashes and stopped recoveries followed the stop. The next run that recovers is
/// not refused for an intent. It works on files without an intent and staged files. These have a
/// state from before the stopped run, or that of the stopped run's outcome.
pub fn a_stopped_run_is_recovered()
    // The next run that recovers works on recovered files.
    ensures recovered { (ignored : List ℕ → Bool) (first v m w : TreeState)
        (events later : List RootEvent) (run next : Run) → ignored intent_name ≡ false
        → IsDurable (StateDependsOn ignored) first
        → EachCrashLeavesNoBadIntent first → ReachesWithNoBadIntentPutByOthers first events v
        → IsRunFrom v run → IsPossibleStop run m → ReachesWithoutCommitOrEdit m later w
        → IsRunFrom w next → does_recover (effect_of_arguments (command_of next.words)) ≡ true
        → let names = ignored_during_run run (ignored_after ignored events) in
        RecoversToStateWithoutRefusal (HasStateOfCrashBeforeOrOutcome
        (ignored_with_all_touched later names) v run) w next }

    // The files on which the next run works have the state of some files that a crash might have
    // left at the moment of the stop.
    ensures left { (ignored : List ℕ → Bool) (first v m w : TreeState)
        (events later : List RootEvent) (run next : Run) → ignored intent_name ≡ false
        → IsDurable (StateDependsOn ignored) first
        → EachCrashLeavesNoBadIntent first → ReachesWithNoBadIntentPutByOthers first events v
        → IsRunFrom v run → IsPossibleStop run m → ReachesWithoutCommitOrEdit m later w
        → IsRunFrom w next → does_recover (effect_of_arguments (command_of next.words)) ≡ true
        → let names = ignored_during_run run (ignored_after ignored events) in
        (image : Files) × IsCrashImage m image
        × RecoversToStateWithoutRefusal (HasSameState
        (ignored_with_all_touched later names) image) w next }

    // Suppose that each crash left one state when the stopped run began. Then files with a state
    // from before the run, or that of its outcome, have this one state or that of the outcome.
    ensures two { (ignored : List ℕ → Bool) (v : TreeState) (run : Run) (files : Files)
        → EachCrashLeavesStateOf ignored (files_of v) v
        → HasStateOfCrashBeforeOrOutcome ignored v run files
        → HasStateAsReadOrOutcome ignored v run files }
{
    // Laws that the proof needs; they have no effect at run time.
    a_crash_leaves_a_durable_settled_tree();
    more_names_may_be_ignored();
    a_state_shows_a_bad_intent();
    an_intent_is_read_from_a_sound_container();
    an_outcome_is_unique();
    a_command_that_makes_commits_unless_refused();
    a_crash_leaves_the_old_files_or_those_of_the_outcome();
    each_name_keeps_old_recovered_or_new_bytes();
    only_a_bad_intent_is_refused_as_one();
    a_root_that_commits_nothing_keeps_its_state();
}
