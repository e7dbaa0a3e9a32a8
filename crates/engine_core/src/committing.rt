//! A rendered change is committed: its files are staged, and one step commits all of them. The
//! rules are in `docs/commands.md`, "`add` and `del`", parts "What is written" and "What is
//! refused", and in `docs/crash-safety.md`, "A change of several files".
ghost use Rattle.change_report.specs.db_core.Seen.{members_of};
ghost use Rattle.engine_core.specs.ChangeRun.{IsEndOfRunOfWantedChange};
ghost use Rattle.engine_core.specs.Committing.{IsPackageBad, IsReadyToCommit, IsRefusedPackage, result_of_ready};
ghost use Rattle.engine_core.specs.Runs.{IsRunCounted};
ghost use Rattle.journal_staging.specs.journal_commit.Asked.{TargetsAreAccepted};
ghost use Rattle.std.specs.Prelude.{◌<◌, IfOk, Ok, length};

use crate::planning::Plan;
use crate::rendering::Rendered;
use base_core::{Cause, Text, Tree};
use change_outcome::a_package_that_was_read_is_that_of_its_file;
use change_report::{Members, Refused};
use journal_staging::{Piece, StageFault, carry_out, runs_with_accepted_targets_begin_with_reads};
use report_core::Refusal;
use std::alloc::{AllocError, Global};

/// Commits a rendered change, and returns its report. A change that writes and removes nothing
/// makes no call on the tree.
///
/// # Errors
///
/// `PackageBad` if the file of a package is no longer what was tested, and `Memory` if there is no
/// memory for the text of this refusal. `Disk` is an I/O error of the tree.
pub(crate) fn commit<T: Tree>(
    alloc: Global,
    plan: &Plan<'_, '_, '_>,
    rendered: Rendered<'_>,
    tree: &mut T,
) -> Result<Text, Refused>
    // The change is rendered from its plan, over the tree as it is now.
    requires { IsReadyToCommit (T.history tree.old) plan.now rendered }
    // The run ends as the change demands: its report is returned; or a package file has changed
    // since it was tested, the tree failed, or memory ran out.
    ensures comes { (ready : IsReadyToCommit (T.history tree.old) plan.now rendered.entry)
        → IsEndOfRunOfWantedChange (Ok ready.found) (Ok (result_of_ready ready))
        (T.history tree.old)
        (T.history tree.new) (T.counts tree.old) (T.counts tree.new) result }
    // How the tree's counts explain the answer: no count falls, an I/O error was counted with its
    // cause, and any other answer hides none.
    ensures counts { IsRunCounted (T.counts tree.old) (T.counts tree.new) result }
    // At each moment the tree has accepted each name to which recovery would then give other bytes
    // than it had at the start.
    ensures promised { TargetsAreAccepted T.accepts (T.history tree.old) (T.history tree.new) }
{
    // Laws that the proof needs; they have no effect at run time.
    a_package_that_was_read_is_that_of_its_file();
    runs_with_accepted_targets_begin_with_reads::<T>();
    let Rendered {
        writes,
        stage,
        report,
    } = rendered;
    let Some(mut stage) = stage else {
        return Ok(report);
    };
    // A law: none of the names is the intent's or below the staging area.
    stage.names_are_free();
    // The buffer for one piece of the contents of a package's file.
    let mut piece = Piece::new();
    match carry_out(&mut stage, tree, &writes, &mut piece) {
        Ok(()) => Ok(report),
        Err(StageFault::Bad { member, cause }) => {
            Err(refused_package(alloc, &plan.members, member as usize, cause))
        }
        Err(StageFault::Disk) => Err(Refused::Disk),
    }
}

/// The refusal that a package is bad: the member at this place (index) of the members, with the
/// test that its file failed when it was read once more.
fn package_bad(
    alloc: Global,
    members: &Members<'_>,
    place: usize,
    cause: Cause,
) -> Result<Refusal, AllocError>
    // The place is one of the members.
    requires { place < length (members_of members.now) }
    ensures { IfOk result (IsPackageBad (members_of members.now) place cause) }
{
    let info = members.view(place).info();
    let name = Text::of(alloc, info.name())?;
    let version = Text::of(alloc, info.version())?;
    Ok(Refusal::PackageBad {
        name,
        version,
        cause,
    })
}

/// How a change ends if the package of the member at this place (index) is bad when it is read once
/// more: the refusal of `package_bad`, or out of memory.
fn refused_package(alloc: Global, members: &Members<'_>, place: usize, cause: Cause) -> Refused
    // The place is one of the members.
    requires { place < length (members_of members.now) }
    ensures { IsRefusedPackage (members_of members.now) place cause result }
{
    match package_bad(alloc, members, place, cause) {
        Ok(refusal) => Refused::Refusal(refusal),
        Err(AllocError) => Refused::Memory,
    }
}
