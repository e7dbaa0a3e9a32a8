//! The top call. Its contract is what this repository proves of a run of `apk`. The outcome of a
//! run is described in `docs/commands.md`, and its effect on a tree in `docs/crash-safety.md`,
//! "Recovery", in the table of what a run of `apk` may leave.
ghost use Rattle.std.specs.Prelude.{◌≡◌, ℕ, Bool, List, IsSome, IsTrue, is_some};
ghost use Rattle.apk_front.specs.Answers.{is_applet_help_or_version_named, IsAnswerOfSomeOutcomeOrFailure, LeavesFiles, LeavesAnyFiles, AnswerTellsWhetherTreeOrSinkFailed, IsFaultless, AnswersOutcomeUnlessMemory, HasNoPlannedFailureAndCanCountMisuse, IsAnsweredInFullUnlessMemory};
ghost use Rattle.apk_front.specs.Moments.{IsOkRefusedOrOutputFault, AreStatesAsRecoveredOrOfCommittingRun, AreStatesOldOrLeadToOutcome, IsRefusedOutOfMemoryOrCommitsNothing, HasNothingToRecover, IgnoresOutputScratchNameButNotIntent, EachRecoveryDiffersOnlyInAcceptedNames, LeavesDurableStateAndOutputIfCommitted, LeavesDurableFilesIfRequiredOnceAnswered, AreRunPathsOfCommandLineFree, NamesAreDurableExceptOutputIfNoIntent};
ghost use Rattle.base_core.specs.Calls.{HoldsNow, IfObservable};
ghost use Rattle.base_core.specs.Crash.{Since};
ghost use Rattle.base_core.specs.Undone.{IsDurable};
ghost use Rattle.base_core.specs.Faults.{CountsOnlyRise, CountsNewFaultWithCause};
ghost use Rattle.base_core.specs.Files.{no_names};
ghost use Rattle.base_core.specs.Sink.{sink_before_and_after, SinkCountsOnlyRiseWithoutMisuse};
ghost use Rattle.base_core.specs.Tree.{files_of};
ghost use Rattle.journal_core.specs.Quiet.{StateIsUnchanged};
ghost use Rattle.journal_core.specs.Recovery.{StateDependsOn, intent_name};
ghost use Rattle.outcome.specs.Effect.{Changes, effect_of_arguments, output, do_arguments_neither_recover_nor_write, depends_only_on_arguments};
ghost use Rattle.outcome.specs.Words.{IsPossibleOutcome, IsOutcome};
ghost use Rattle.outcome.specs.Work.{recovery_fault};
ghost use Rattle.words_core.specs.Grammar.{command_of};

use crate::answer::{Answer, show};
use crate::judge::judge;
use base_core::{Sink, Tree, Words};
use std::alloc::Global;

/// Runs a command line, without the program's name, on a tree of files and two sinks, as apk(8)
/// describes it.
///
/// `Outcome` says what a command answers, prints and leaves. An I/O error of the file tree, a fault
/// of a sink, or out of memory may be answered instead.
///
/// A clause that begins with `IfObservable` holds of a tree whose history is observable, such as
/// the one in memory; `v` is the state in which the run begins. `ignored` are names whose files a
/// crash may leave in any state: they contain OUTPUT.apk-tmp, and not lib/apk/intent.
pub fn apk<T: Tree, O: Sink, E: Sink>(
    alloc: Global,
    words: &Words,
    tree: &mut T,
    out: &mut O,
    err: &mut E,
) -> Answer
    // ---- answer, output and files

    // The answer, the bytes of the two sinks and the files left are the outcome's, also for a
    // refusal. An I/O error of the tree or a fault of a sink, with its cause, or out of memory, may
    // be answered instead. After a sink's fault the files left are still the outcome's.
    ensures stated { IfObservable (T.history tree.old) (λ v.
        IsAnswerOfSomeOutcomeOrFailure (IsOutcome (command_of words.now) (files_of v))
        (LeavesFiles (T.history tree.new)) (CountsNewFaultWithCause (T.counts tree.old)
        (T.counts tree.new)) result
        (sink_before_and_after O.bytes O.counts out.old out.new)
        (sink_before_and_after E.bytes E.counts err.old err.new)) }

    // If no count of faults rose, the answer is the outcome's, or memory ran out.
    ensures complete { IfObservable (T.history tree.old) (λ v.
        IsFaultless (T.counts tree.old) (T.counts tree.new)
        (sink_before_and_after O.bytes O.counts out.old out.new)
        (sink_before_and_after E.bytes E.counts err.old err.new)
        → AnswersOutcomeUnlessMemory words.now (files_of v) result) }

    // On every tree: an outcome that depends on the arguments alone is the answer, and the tree
    // never fails.
    ensures every_tree { IsTrue (depends_only_on_arguments (command_of words.now))
        → IsAnswerOfSomeOutcomeOrFailure (IsOutcome
        (command_of words.now) no_names) LeavesAnyFiles ⊥ result
        (sink_before_and_after O.bytes O.counts out.old out.new)
        (sink_before_and_after E.bytes E.counts err.old err.new) }

    // On every tree: the answer and the bytes are those of the specification for some listing, some
    // contents at each read, and the first clash of names among some files. Or an added package is
    // no longer what was tested, and is reported as bad, with the cause of some file that has its
    // identity and other contents. That these are the contents of a real file system is trusted.
    ensures found { IsAnswerOfSomeOutcomeOrFailure (IsPossibleOutcome
        (command_of words.now)) LeavesAnyFiles
        (CountsNewFaultWithCause (T.counts tree.old) (T.counts tree.new)) result
        (sink_before_and_after O.bytes O.counts out.old out.new)
        (sink_before_and_after E.bytes E.counts err.old err.new) }

    // ---- causes of failures, on every tree and sink

    // After `Ok` and a refusal neither the tree nor a sink has failed. An I/O error of the tree or
    // a fault of a sink has its cause there. Running out of memory, or a fault of a sink, hides no
    // I/O error of the tree. After an I/O error of the tree, or out of memory, exactly its line is
    // printed.
    ensures causes { AnswerTellsWhetherTreeOrSinkFailed result (T.counts tree.old)
        (T.counts tree.new)
        (sink_before_and_after O.bytes O.counts out.old out.new)
        (sink_before_and_after E.bytes E.counts err.old err.new) }

    // No count falls, and no sink is misused.
    ensures tree_counts { CountsOnlyRise (T.counts tree.old) (T.counts tree.new) }
    ensures out_counts { SinkCountsOnlyRiseWithoutMisuse
        (sink_before_and_after O.bytes O.counts out.old out.new) }
    ensures err_counts { SinkCountsOnlyRiseWithoutMisuse
        (sink_before_and_after E.bytes E.counts err.old err.new) }

    // Out of memory is answered only if the arguments name an applet, or ask for help or the
    // version.
    ensures memory { result ≡ Answer.Memory → IsTrue (is_applet_help_or_version_named words.now) }

    // No call is a misuse of the tree if two conditions hold: the paths that recovery writes are
    // free in the files, and those that the outcome writes are free in the recovered files. Then
    // OUTPUT and OUTPUT.apk-tmp are no folder of another file, and no file is a folder of them.
    ensures proper { IfObservable (T.history tree.old)
        (λ v. AreRunPathsOfCommandLineFree words.now (files_of v)
        → (T.counts tree.new).misuses ≡ (T.counts tree.old).misuses) }

    // If these paths are free, and no failure of the tree and the sinks is planned, the run ends as
    // its outcome says, unless memory ran out: the run's, or the own memory of the tree or a sink.
    ensures unless_memory { IfObservable (T.history tree.old) (λ v.
        AreRunPathsOfCommandLineFree words.now (files_of v)
        → HasNoPlannedFailureAndCanCountMisuse (T.counts tree.old)
        → HasNoPlannedFailureAndCanCountMisuse (O.counts out.old)
        → HasNoPlannedFailureAndCanCountMisuse (E.counts err.old)
        → IsAnsweredInFullUnlessMemory words.now (files_of v) (LeavesFiles
        (T.history tree.new)) result
        (T.counts tree.old) (T.counts tree.new)
        (sink_before_and_after O.bytes O.counts out.old out.new)
        (sink_before_and_after E.bytes E.counts err.old err.new)) }

    // ---- effect on the tree

    // If the outcome depends on the arguments alone, the run leaves the tree as it is, with its
    // counts: no call is made on it.
    ensures untouched { IsTrue (depends_only_on_arguments (command_of words.now)) → tree.new
        ≡ tree.old }

    // A command that only reads makes no new state of the tree.
    ensures same { IsTrue (do_arguments_neither_recover_nor_write (command_of words.now))
        → T.history tree.new ≡ T.history tree.old }

    // Before it commits, a change has asked the tree about each name that it writes or removes. So
    // at each moment, if recovery would now change a name that it would not have changed at the
    // start, the tree has accepted that name.
    ensures promised { effect_of_arguments (command_of words.now) ≡ Changes
        → EachRecoveryDiffersOnlyInAcceptedNames T.accepts (T.history tree.old)
        (T.history tree.new) }

    // If there is nothing to recover, these runs write nothing, whatever is answered instead: those
    // that are refused, that run out of memory, or whose outcome commits nothing.
    ensures idle { IfObservable (T.history tree.old) (λ v.
        IsRefusedOutOfMemoryOrCommitsNothing (IsOutcome (command_of words.now) (files_of v)) result
        → HasNothingToRecover (effect_of_arguments (command_of words.now)) v
        → T.history tree.new ≡ T.history tree.old) }

    // If the intent is bad nothing is written, whatever is answered.
    ensures bad_intent { IfObservable (T.history tree.old) (λ v.
        IsSome (recovery_fault (effect_of_arguments (command_of words.now)) (files_of v))
        → T.history tree.new ≡ T.history tree.old) }

    // First, if the command recovers: at each moment recovery of the files as read yields what it
    // yields of the old ones, and staged files are only removed. After recovery the files as read
    // are those on which the command works, except under the names at which an outcome that commits
    // makes new files; or a change has committed its journal entry (intent), and recovery yields
    // the outcome's files; or they are the outcome's. So each name except the intent's and
    // temporary ones has its old bytes, its recovered ones or the outcome's, even if the tree
    // fails: no file is ever temporarily missing. Not proved: that an unchanged file is never
    // rewritten with the same bytes.
    ensures reads { IfObservable (T.history tree.old) (λ v.
        AreStatesAsRecoveredOrOfCommittingRun (IsOutcome (command_of words.now) (files_of v))
        (effect_of_arguments (command_of words.now)) (output words.now) v (T.history tree.old)
        (T.history tree.new)) }

    // If the intent is present at the start: at each moment at which it is absent, a crash undoes
    // no change of a name, so that the change of the intent is durable. This excludes OUTPUT,
    // OUTPUT.apk-tmp and staged files.
    ensures last { IfObservable (T.history tree.old) (λ v. IsSome (v.names intent_name)
        → Since (NamesAreDurableExceptOutputIfNoIntent (output words.now)) (T.history tree.old)
        (T.history tree.new)) }

    // ---- what a crash leaves of a durable tree

    // A run that is refused, runs out of memory or commits nothing leaves the state unchanged: at
    // each moment a crash leaves a state from before the run, and the files as read have the old
    // state.
    ensures left { IfObservable (T.history tree.old) (λ v.
        IsRefusedOutOfMemoryOrCommitsNothing (IsOutcome (command_of words.now) (files_of v)) result
        → (ignored : List ℕ → Bool) → IsDurable (StateDependsOn ignored) v
        → Since (StateIsUnchanged ignored v) (T.history tree.old) (T.history tree.new)) }

    // Every run leaves the state unchanged, or has an outcome that commits, and at each moment a
    // crash leaves an old state or that of the outcome's files; OUTPUT.apk-tmp may be left too. A
    // state includes a bad intent, so a crash leaves a bad intent only if it might have left one
    // before.
    ensures crash { IfObservable (T.history tree.old) (λ v. (ignored : List ℕ → Bool)
        → IsDurable (StateDependsOn ignored) v
        → IgnoresOutputScratchNameButNotIntent (output words.now) ignored
        → AreStatesOldOrLeadToOutcome (IsOutcome (command_of words.now) (files_of v)) (is_some
        (output
        words.now))
        ignored v (T.history tree.old) (T.history tree.new)) }

    // A tree that was durable when the run began is durable after the run, whatever is answered.
    ensures is_durable { IfObservable (T.history tree.old) (λ v. (ignored : List ℕ → Bool)
        → IsDurable (StateDependsOn ignored) v
        → IgnoresOutputScratchNameButNotIntent (output words.now) ignored
        → HoldsNow (T.history tree.new) (IsDurable (StateDependsOn ignored))) }

    // Once the outcome is answered, even a refusal, or a sink's fault instead, each crash leaves
    // the outcome's files. For an outcome that commits nothing, one of two things must hold: each
    // crash left the files as read before the run, or an intent was found and its change completed.
    ensures settled { IfObservable (T.history tree.old) (λ v. (ignored : List ℕ → Bool)
        → IsDurable (StateDependsOn ignored) v
        → IgnoresOutputScratchNameButNotIntent (output words.now) ignored
        → LeavesDurableFilesIfRequiredOnceAnswered (IsOutcome (command_of words.now) (files_of v))
        (effect_of_arguments (command_of words.now)) ignored v (T.history tree.new) result) }

    // Once an outcome that commits is answered, or a sink's fault instead, OUTPUT and
    // OUTPUT.apk-tmp are no longer ignored: the tree is durable, and each crash leaves the
    // outcome's files, under these names too.
    ensures durable_state { IfObservable (T.history tree.old) (λ v. (ignored : List ℕ → Bool)
        → IsDurable (StateDependsOn ignored) v
        → IgnoresOutputScratchNameButNotIntent (output words.now) ignored
        → IsOkRefusedOrOutputFault result
        → LeavesDurableStateAndOutputIfCommitted (IsOutcome (command_of words.now) (files_of v))
        (output words.now) ignored (T.history tree.new)) }
{
    let judged = judge(alloc, words, tree);
    show(judged, out, err)
}
