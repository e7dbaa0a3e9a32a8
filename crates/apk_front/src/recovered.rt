//! Runs a command that recovers first: the change of an intent (journal entry) that is found is
//! completed, then the command runs. Used by `run` in `judge.rt`. The rules are in
//! `docs/commands.md`, "Commands that recover first", and in `docs/crash-safety.md`, "Recovery".
ghost use Rattle.std.specs.Prelude.{◌≡◌, true, Ok, IfOk, IsErrOf};
ghost use Rattle.apk_front.specs.RunContracts.{IsJudgedRun, IsRecoveredRun};
ghost use Rattle.apk_front.specs.Verdicts.{as_outcome};
ghost use Rattle.base_core.specs.Files.{Files};
ghost use Rattle.base_core.specs.declared.cause.Cause.{Cause};
ghost use Rattle.outcome.specs.Commands.{IsOutcomeWithoutDemo, IsPossibleOutcomeWithoutDemo};
ghost use Rattle.outcome.specs.Effect.{Changes, does_recover, effect_of, output_name_for_effect};
ghost use Rattle.outcome.specs.Outcome.{just_refusal};
ghost use Rattle.report_core.specs.declared.refusal.Refusal.TheVariants.{IntentBad};
ghost use Rattle.engine_core.specs.journal_commit.Asked.{TargetsAreAccepted};

use crate::answer::Verdict;
use crate::change_root::change_root;
use crate::make::{mkndx, mkpkg};
use crate::report::report;
use base_core::{Tree, TreeFault};
use command_core::{Applet, Command};
use journal_recovery::{RecoverFault, recover};
use report_core::Refusal;
use std::alloc::Global;

/// Recovers the tree, and runs a command over the recovered files.
pub(crate) fn recover_and_run<T: Tree>(
    alloc: Global,
    command: &Command,
    tree: &mut T,
) -> Result<Verdict, TreeFault>
    // The command recovers first, by its effect.
    requires { does_recover (effect_of command.now.applet) ≡ true }
    // What the run answers, and its effect on the tree.
    ensures { IsJudgedRun T.accepts (IsOutcomeWithoutDemo (Ok command.now))
        (IsPossibleOutcomeWithoutDemo command.now) (effect_of command.now.applet)
        (output_name_for_effect (effect_of command.now.applet) command.now)
        (T.history tree.old) (T.history tree.new) (T.counts tree.old) (T.counts tree.new) result }
{
    match recover(alloc, tree) {
        Ok(()) => run_recovered(alloc, command, tree),
        Err(fault) => refuse_to_recover(alloc, fault),
    }
}

// Runs a command over the files that are there after recovery.
fn run_recovered<T: Tree>(
    alloc: Global,
    command: &Command,
    tree: &mut T,
) -> Result<Verdict, TreeFault>
    // The command recovers first, by its effect.
    requires { does_recover (effect_of command.now.applet) ≡ true }
    // The verdict is that of the outcome, with its effect on the tree and the tree's counts.
    ensures run { IsRecoveredRun command.now
        (T.history tree.old) (T.history tree.new) (T.counts tree.old) (T.counts tree.new) result }
    // At each moment of a change, the tree has accepted each name to which recovery would then give
    // other bytes than it had at the start.
    ensures promised { effect_of command.now.applet ≡ Changes
        → TargetsAreAccepted T.accepts (T.history tree.old) (T.history tree.new) }
{
    match command.applet() {
        Applet::Mkpkg => mkpkg(alloc, command, tree),
        Applet::Mkndx => mkndx(alloc, command, tree),
        Applet::Info
        | Applet::Audit
        | Applet::Manifest
        | Applet::List
        | Applet::Search
        | Applet::Policy => report(alloc, command, tree),
        Applet::Add | Applet::Del | Applet::Upgrade | Applet::Fix => {
            change_root(alloc, command, tree)
        }
        // unreachable!() => The other applets do not recover.
        _ => unreachable!(),
    }
}

// The verdict if recovery failed: a bad intent is refused. An I/O error of the tree and out of
// memory are returned instead of a verdict.
fn refuse_to_recover(alloc: Global, fault: RecoverFault) -> Result<Verdict, TreeFault>
    // If there is a verdict, recovery found a bad intent, and this is refused.
    ensures refused { IfOk result (λ verdict. (cause : Cause)
        × (fault ≡ RecoverFault.IntentBad cause)
        × ((files : Files) → as_outcome files verdict ≡ just_refusal files (IntentBad cause))) }
    // An I/O error and out of memory are returned only if recovery failed with them.
    ensures disk { IsErrOf result TreeFault.Disk → fault ≡ RecoverFault.Disk }
    ensures memory { IsErrOf result TreeFault.Memory → fault ≡ RecoverFault.Memory }
{
    match fault {
        RecoverFault::IntentBad(cause) => {
            Ok(Verdict::refused(alloc, Refusal::IntentBad { cause }))
        }
        RecoverFault::Disk => Err(TreeFault::Disk),
        RecoverFault::Memory => Err(TreeFault::Memory),
    }
}
