//! The commands that only report on what is installed or available. The rules are in
//! `docs/commands.md`, under each command's name; the reports are made by `tell_core`.
ghost use Rattle.std.specs.Prelude.{◌≡◌};
ghost use Rattle.apk_front.specs.RunContracts.{IsRecoveredRun};
ghost use Rattle.apk_front.specs.Told.{IsVerdictOnReport};
ghost use Rattle.outcome.specs.Effect.{AsksRoot, effect_of};

use crate::answer::Verdict;
use base_core::{Tree, TreeFault};
use command_core::Command;
use std::alloc::Global;
use tell_core::{Refused, ReportAndRefusal, tell};

/// Reports on what is installed or available. A refusal may follow the report; nothing is written.
/// The contract is that of `run_recovered`, which calls this.
pub(crate) fn report<T: Tree>(
    alloc: Global,
    command: &Command,
    tree: &mut T,
) -> Result<Verdict, TreeFault>
    // The command only reports on the root.
    requires { effect_of command.now.applet ≡ AsksRoot }
    // The verdict is that of the command's outcome, with its effect on the tree and on the counts.
    ensures { IsRecoveredRun command.now
        (T.history tree.old) (T.history tree.new) (T.counts tree.old) (T.counts tree.new) result }
{
    let answer = tell(alloc, command, tree);
    verdict_of(alloc, answer)
}

// The answer as a verdict: the report, with the refusal after it, if there is one; or a refusal
// alone. An I/O error of the tree and out of memory are returned instead of a verdict.
fn verdict_of(
    alloc: Global,
    answer: Result<ReportAndRefusal, Refused>,
) -> Result<Verdict, TreeFault>
    // The verdict has the report or the refusal of the answer, or the failure is returned.
    ensures { IsVerdictOnReport answer result }
{
    match answer {
        Ok(done) => Ok(Verdict {
            report: done.report,
            refusal: done.following_refusal,
        }),
        Err(Refused::Refusal(refusal)) => Ok(Verdict::refused(alloc, refusal)),
        Err(Refused::Disk) => Err(TreeFault::Disk),
        Err(Refused::Memory) => Err(TreeFault::Memory),
    }
}
