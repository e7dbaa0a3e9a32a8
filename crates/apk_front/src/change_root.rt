//! `add`, `del`, `upgrade` and `fix` change what is installed, and report it. The rules are in
//! `docs/commands.md`, "`add` and `del`" and "`upgrade` and `fix`"; the engine is `engine_core`.
ghost use Rattle.std.specs.Prelude.{◌≡◌};
ghost use Rattle.apk_front.specs.RunContracts.{IsRecoveredRun};
ghost use Rattle.apk_front.specs.Told.{IsVerdictOnChange};
ghost use Rattle.outcome.specs.Effect.{Changes, effect_of};
ghost use Rattle.engine_core.specs.journal_commit.Asked.{TargetsAreAccepted};

use crate::answer::Verdict;
use base_core::{Text, Tree, TreeFault};
use command_core::Command;
use engine_core::Refused;
use outcome::an_outcome_over_files_is_unique;
use std::alloc::Global;

/// Changes what is installed, and reports it. No memory is allocated once the change is carried
/// out. The clauses are those of `run_recovered`, which calls this.
pub(crate) fn change_root<T: Tree>(
    alloc: Global,
    command: &Command,
    tree: &mut T,
) -> Result<Verdict, TreeFault>
    // The command is `add`, `del`, `upgrade` or `fix`.
    requires { effect_of command.now.applet ≡ Changes }
    // The verdict is that of the command's outcome, with its effect on the tree and on the counts.
    ensures run { IsRecoveredRun command.now
        (T.history tree.old) (T.history tree.new) (T.counts tree.old) (T.counts tree.new) result }
    // At each moment the tree has accepted each name to which recovery would then give other bytes
    // than it had at the start.
    ensures promised { TargetsAreAccepted T.accepts (T.history tree.old) (T.history tree.new) }
{
    // A law that the proof needs; it has no effect at run time.
    an_outcome_over_files_is_unique();
    let answer = engine_core::change(alloc, command, tree);
    verdict_of(alloc, answer)
}

// The engine's answer as a verdict, which has the report or the refusal. An I/O error of the tree
// and out of memory are returned instead of a verdict.
fn verdict_of(alloc: Global, answer: Result<Text, Refused>) -> Result<Verdict, TreeFault>
    ensures { IsVerdictOnChange answer result }
{
    match answer {
        Ok(report) => Ok(Verdict::reported(report)),
        Err(Refused::Refusal(refusal)) => Ok(Verdict::refused(alloc, refusal)),
        Err(Refused::Disk) => Err(TreeFault::Disk),
        Err(Refused::Memory) => Err(TreeFault::Memory),
    }
}
