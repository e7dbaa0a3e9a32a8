//! Laws: the clauses of `apk` hold of each outcome that a command line has, and not only of the one
//! that they name. They serve `run_lists`; the rules are in `docs/crash-safety.md`, "Recovery".
ghost use Rattle.std.specs.Prelude.{◌≡◌, ℕ, Bool, true, List, None, is_some};
ghost use Rattle.apk_front.specs.Moments.{AreStatesOldOrLeadToOutcome, HasNothingToRecover, IsOkOrOutputFault, IsStateDuringRecovery, LeavesDurableFilesIfRequiredOnceAnswered, CommitsRecoversIntentOrCrashesLeaveAsRead};
ghost use Rattle.apk_front.specs.declared.answer.Answer.{Answer};
ghost use Rattle.base_core.specs.Calls.{HoldsNow};
ghost use Rattle.base_core.specs.Crash.{Since};
ghost use Rattle.base_core.specs.Tree.{TreeState, files_of};
ghost use Rattle.journal_core.specs.Recovery.{EachCrashLeavesStateOf};
ghost use Rattle.journal_core.specs.Replacing.{IsMomentOfReplacing};
ghost use Rattle.outcome.specs.Effect.{Effect, does_recover, effect_of_arguments, output};
ghost use Rattle.outcome.specs.Outcome.{Outcome};
ghost use Rattle.outcome.specs.Words.{IsOutcome};
ghost use Rattle.outcome.specs.Work.{files_recovered_if_needed};
ghost use Rattle.words_core.specs.Grammar.{command_of};

use journal_core::quiet_then_old_or_new_is_old_or_new;
use outcome::an_outcome_is_unique;

/// From the clause `crash` of `apk`: for every outcome of a command line, at each moment the tree
/// is durable, and a crash leaves an old state or that of the outcome's files.
pub fn a_crash_leaves_the_old_files_or_those_of_the_outcome()
    ensures { (words : List (List ℕ)) (ignored : List ℕ → Bool) (v : TreeState) (outcome : Outcome)
        (old now : List TreeState)
        → AreStatesOldOrLeadToOutcome (IsOutcome (command_of words) (files_of v)) (is_some (output
        words)) ignored v
        old now
        → IsOutcome (command_of words) (files_of v) outcome
        → Since (IsMomentOfReplacing ignored outcome.files v) old now }
{
    // Laws that the proof needs; they have no effect at run time.
    an_outcome_is_unique();
    quiet_then_old_or_new_is_old_or_new();
}

/// From the clause `settled` of `apk`: once an outcome without a refusal is carried out, each crash
/// leaves its files. For an outcome that commits nothing, one of two things must hold too: each
/// crash left the files as read before the run, or an intent was found and its change completed.
pub fn what_is_carried_out_is_durable()
    ensures { (words : List (List ℕ)) (ignored : List ℕ → Bool) (v : TreeState) (outcome : Outcome)
        (now : List TreeState) (answer : Answer)
        → LeavesDurableFilesIfRequiredOnceAnswered (IsOutcome (command_of words) (files_of v))
        (effect_of_arguments
        (command_of words))
        ignored v now answer → IsOkOrOutputFault answer
        → IsOutcome (command_of words) (files_of v) outcome → outcome.refusal ≡ None
        → CommitsRecoversIntentOrCrashesLeaveAsRead (effect_of_arguments
        (command_of words)) ignored v outcome
        → HoldsNow now (EachCrashLeavesStateOf ignored outcome.files) }
{
    // A law that the proof needs; it has no effect at run time.
    an_outcome_is_unique();
}

/// From the clause `reads` of `apk`, if there is nothing to recover: while the tree is being
/// recovered, its files are those at the start of the run, and the command works on these.
pub fn without_recovery_the_files_are_the_old_ones()
    // At each moment of a recovery the files are those at the start of the run.
    ensures moments { (effect : Effect) (v w : TreeState) → HasNothingToRecover effect v
        → (does_recover effect ≡ true) × IsStateDuringRecovery v w → files_of w ≡ files_of v }
    // The files on which the command works are those at the start.
    ensures work { (effect : Effect) (v : TreeState) → HasNothingToRecover effect v
        → files_recovered_if_needed effect (files_of v) ≡ files_of v }
{}
