//! The function that the program calls: `apk`, with the theorem of the README as its contract, and
//! with those clauses of `apk` that are about every tree, or about one run alone.
ghost use Rattle.std.specs.Prelude.{◌≡◌, IsTrue};
ghost use Rattle.run_lists.specs.apk_front.Answers.{is_applet_help_or_version_named, AnswerTellsWhetherTreeOrSinkFailed, IsAnswerOfSomeOutcomeOrFailure, AnswersOutcomeUnlessMemory, IsFaultless, IsAnsweredInFullUnlessMemory, HasNoPlannedFailureAndCanCountMisuse, LeavesAnyFiles, LeavesFiles};
ghost use Rattle.run_lists.specs.apk_front.Moments.{EachRecoveryDiffersOnlyInAcceptedNames, AreRunPathsOfCommandLineFree};
ghost use Rattle.base_core.specs.Calls.{IfObservable};
ghost use Rattle.base_core.specs.Faults.{CountsOnlyRise, CountsNewFaultWithCause};
ghost use Rattle.base_core.specs.Files.{no_names};
ghost use Rattle.base_core.specs.Sink.{sink_before_and_after, SinkCountsOnlyRiseWithoutMisuse};
ghost use Rattle.base_core.specs.Tree.{files_of};
ghost use Rattle.headline.specs.Sentence.{IsAsPromisedAfterAnyEvents};
ghost use Rattle.refusal_laws.specs.outcome.Effect.{Changes, effect_of_arguments, do_arguments_neither_recover_nor_write, depends_only_on_arguments};
ghost use Rattle.refusal_laws.specs.outcome.Words.{IsPossibleOutcome, IsOutcome};
ghost use Rattle.run_lists.specs.Events.{IsRunFrom, Run};
ghost use Rattle.refusal_laws.specs.words_core.Grammar.{command_of};

use crate::sentence::the_sentence_holds;
use base_core::{Sink, Tree, Words};
use run_lists::{Answer, a_run_is_safe_after_any_events, apk};
use std::alloc::Global;

/// Runs a command line on a root, by `apk`. If the tree is observable, the call is a run for which
/// the theorem holds.
pub fn apk_as_promised<T: Tree, O: Sink, E: Sink>(
    alloc: Global,
    words: &Words,
    tree: &mut T,
    out: &mut O,
    err: &mut E,
) -> Answer
    // On an observable tree the call is a run from the state v, and the theorem holds for this run.
    ensures promised { IfObservable (T.history tree.old) (λ v. let run : Run = record {
      words = words.now;
      old = T.history tree.old;
      now = T.history tree.new;
      before = T.counts tree.old;
      after = T.counts tree.new;
      out = sink_before_and_after O.bytes O.counts out.old out.new;
      err = sink_before_and_after E.bytes E.counts err.old err.new;
      answer = result;
    } in IsRunFrom v run × IsAsPromisedAfterAnyEvents v run) }

    // ---- the clauses of `apk` that *IsRunFrom* does not have, unchanged

    // If no count of faults rose, the answer is the outcome's, or memory ran out.
    ensures complete { IfObservable (T.history tree.old) (λ v.
        IsFaultless (T.counts tree.old) (T.counts tree.new)
        (sink_before_and_after O.bytes O.counts out.old out.new)
        (sink_before_and_after E.bytes E.counts err.old err.new)
        → AnswersOutcomeUnlessMemory words.now (files_of v) result) }
    // On every tree: an outcome that depends on the arguments alone is answered, and the tree never
    // fails.
    ensures every_tree { IsTrue (depends_only_on_arguments (command_of words.now))
        → IsAnswerOfSomeOutcomeOrFailure (IsOutcome
        (command_of words.now) no_names) LeavesAnyFiles ⊥ result
        (sink_before_and_after O.bytes O.counts out.old out.new)
        (sink_before_and_after E.bytes E.counts err.old err.new) }
    // On every tree the answer is that of a possible outcome.
    ensures found { IsAnswerOfSomeOutcomeOrFailure (IsPossibleOutcome
        (command_of words.now)) LeavesAnyFiles
        (CountsNewFaultWithCause (T.counts tree.old) (T.counts tree.new)) result
        (sink_before_and_after O.bytes O.counts out.old out.new)
        (sink_before_and_after E.bytes E.counts err.old err.new) }
    // At each moment of a change, the tree has accepted each name to which recovery would then give
    // other bytes than recovery at the start.
    ensures asked { effect_of_arguments (command_of words.now) ≡ Changes
        → EachRecoveryDiffersOnlyInAcceptedNames T.accepts (T.history tree.old)
        (T.history tree.new) }
    // The counts of the tree and of the sinks explain the answer: which call failed, if any, and
    // why.
    ensures causes { AnswerTellsWhetherTreeOrSinkFailed result (T.counts tree.old)
        (T.counts tree.new)
        (sink_before_and_after O.bytes O.counts out.old out.new)
        (sink_before_and_after E.bytes E.counts err.old err.new) }
    // No count falls, and no sink is misused.
    ensures tree_counts { CountsOnlyRise (T.counts tree.old) (T.counts tree.new) }
    ensures out_counts { SinkCountsOnlyRiseWithoutMisuse
        (sink_before_and_after O.bytes O.counts out.old out.new) }
    ensures err_counts { SinkCountsOnlyRiseWithoutMisuse
        (sink_before_and_after E.bytes E.counts err.old err.new) }
    // Out of memory is answered only if the arguments name an applet, or ask for help or the
    // version.
    ensures memory { result ≡ Answer.Memory → IsTrue (is_applet_help_or_version_named words.now) }
    // No call is a misuse of the tree, if the paths that recovery and the outcome write are free.
    ensures proper { IfObservable (T.history tree.old)
        (λ v. AreRunPathsOfCommandLineFree words.now (files_of v)
        → (T.counts tree.new).misuses ≡ (T.counts tree.old).misuses) }
    // If these paths are free and no failure is planned, the run ends as its outcome says, unless
    // memory runs out.
    ensures unless_memory { IfObservable (T.history tree.old) (λ v.
        AreRunPathsOfCommandLineFree words.now (files_of v)
        → HasNoPlannedFailureAndCanCountMisuse (T.counts tree.old)
        → HasNoPlannedFailureAndCanCountMisuse (O.counts out.old)
        → HasNoPlannedFailureAndCanCountMisuse (E.counts err.old)
        → IsAnsweredInFullUnlessMemory words.now (files_of v) (LeavesFiles
        (T.history tree.new)) result
        (T.counts tree.old) (T.counts tree.new)
        (sink_before_and_after O.bytes O.counts out.old out.new)
        (sink_before_and_after E.bytes E.counts err.old err.new)) }
    // If the outcome depends on the arguments alone, no call is made on the tree.
    ensures untouched { IsTrue (depends_only_on_arguments (command_of words.now)) → tree.new
        ≡ tree.old }
    // A command that only reads makes no new state of the tree.
    ensures same { IsTrue (do_arguments_neither_recover_nor_write (command_of words.now))
        → T.history tree.new ≡ T.history tree.old }
{
    // Laws that the proof needs; they have no effect at run time.
    the_sentence_holds();
    a_run_is_safe_after_any_events();
    apk(alloc, words, tree, out, err)
}
