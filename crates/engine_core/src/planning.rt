//! The plan of a change: the packages after it, what it does with files, and the tests by which a
//! change is refused before anything is made. The rules are in `docs/commands.md`, "What a change
//! does with files", and for triggers in "`add` and `del`", part "Which triggers are due".

ghost use Rattle.change_outcome.specs.Arrivals.{CanBeMembers, arrivals_seen};
ghost use Rattle.base_core.specs.Read.{OnlyReads};
ghost use Rattle.change_report.specs.change_inputs.Answers.{Agrees};
ghost use Rattle.change_report.specs.change_outcome.ChangeOutcome.{member_name_at_place};
ghost use Rattle.change_report.specs.change_outcome.MembersAfter.{MemberFound};
ghost use Rattle.change_report.specs.change_outcome.Triggers.{unless_trigger_due};
ghost use Rattle.change_report.specs.db_core.Seen.{members_of, packages_of};
ghost use Rattle.change_report.specs.Due.{planned_paths};
ghost use Rattle.change_report.specs.make_info.Reads.{Reads};
ghost use Rattle.engine_core.specs.Plans.{HasNoPlan, IsPlanFrom, IsRefusalOfPlanFault};
ghost use Rattle.engine_core.specs.Preparing.{ArePackagesFoundByReads, IsPlanOfPackages, inputs_of_packages, replacement_of_packages, wishes_of_packages};
ghost use Rattle.engine_core.specs.Runs.{IsRunOnFoundPackages};
ghost use Rattle.std.specs.Prelude.{◌≡◌, ◌<◌, true, Err, IfErr, IfOk, List, length};

use crate::packages::ReadPackages;
use base_core::{Text, Tree};
use change_outcome::{members_of_change, packages_that_were_read_are_those_found};
use change_report::{
    Db, FilePlan, Members, PlanFault, Refused, a_change_has_a_first_clash_or_none, first_due, plan,
    touched_folders,
};
use report_core::Refusal;
use std::alloc::{AllocError, Global};

/// The plan of a change: the packages after it, and what it does with files.
pub(crate) struct Plan<'r, 's, 'a> {
    /// The packages after the change, as they were read.
    pub packages: &'r ReadPackages<'s, 'a>,
    /// The packages after the change, as the database is to list them.
    pub members: Members<'r>,
    /// The names that the change removes or writes, those written as `PATH.apk-new` beside a
    /// modified file, and the modified files that it keeps.
    pub files: FilePlan,
}

/// Drops the parts in one call, so that a function that gives up has one drop and not many.
impl Drop for Plan<'_, '_, '_> {
    fn drop(self) {
        let Plan {
            packages: _,
            members: _,
            files: _,
        } = self;
    }
}

/// Plans the change to packages that were read: makes the plan of its files, and tests its files
/// and triggers.
///
/// # Errors
///
/// `Reserved`, `PathClash` and `Owned`; then `TriggerNeeded`; `Disk`, or `Memory`.
pub(crate) fn plan_change<'r, 's, 'a, T: Tree>(
    alloc: Global,
    packages: &'r ReadPackages<'s, 'a>,
    tree: &mut T,
) -> Result<Plan<'r, 's, 'a>, Refused>
    // One database can list all these packages: their names are in order, and they are not too
    // many.
    requires { CanBeMembers (packages_of packages.now.selection.now.db)
        (arrivals_seen packages.now.arrivals) }
    // The plan of these packages, over the tree's files if they are observable.
    ensures plan { IfOk result (IsPlanOfPackages (T.history tree.old) packages.entry.now) }
    // Or the run ends with the refusal of the first test that the change fails, or with a failure.
    // This holds for all reads that find these packages (`found`).
    ensures refused { IfErr result (λ refused. (read : Reads) (found : List MemberFound)
        → ArePackagesFoundByReads (T.history tree.old) packages.entry.now read found
        → IsRunOnFoundPackages (inputs_of_packages packages.entry.now)
        (replacement_of_packages packages.entry.now) (wishes_of_packages packages.entry.now) found
        (T.history tree.old) (T.history tree.new) (T.counts tree.old) (T.counts tree.new)
        (Err refused)) }
    // The tree is only read, and an I/O error has its cause there.
    ensures tree { OnlyReads Refused.Disk (T.history tree.old) (T.history tree.new)
        (T.counts tree.old) (T.counts tree.new) result }
{
    // Laws that the proof needs; they have no effect at run time.
    a_change_has_a_first_clash_or_none();
    packages_that_were_read_are_those_found();
    let selection = packages.selection;
    let flags = selection.command.flags();
    let members = members_of_change(alloc, &selection.db, &packages.arrivals)?;
    let files = plan_files(alloc, flags.purge, &selection.db, &members, tree)?;
    test_triggers(alloc, flags.no_scripts, &members, &files)?;
    Ok(Plan {
        packages,
        members,
        files,
    })
}

/// Plans the files of a change, or refuses it.
///
/// # Errors
///
/// `Reserved`, `PathClash` and `Owned`; `Disk`, or `Memory`.
fn plan_files<T: Tree>(
    alloc: Global,
    purge: bool,
    db: &Db<'_>,
    members: &Members<'_>,
    tree: &mut T,
) -> Result<FilePlan, Refused>
    // The plan is that of the change, over the tree's files if they are observable.
    ensures plan { IfOk result (IsPlanFrom (T.history tree.old) purge db.now members.now) }
    // Or the files of the change cannot be planned, and the result is the refusal for this.
    ensures refused { IfErr result (HasNoPlan (T.history tree.old) purge db.now members.now) }
    // The tree is only read, and an I/O error has its cause there.
    ensures tree { OnlyReads Refused.Disk (T.history tree.old) (T.history tree.new)
        (T.counts tree.old) (T.counts tree.new) result }
{
    // A law: no path that the database lists is reserved.
    db.no_listed_path_is_reserved();
    match plan(alloc, db, members, tree, purge) {
        Ok(plan) => Ok(plan),
        Err(fault) => Err(refused_plan(fault)),
    }
}

// Why a change ends if its files cannot be planned: the refusal of the failed test, an I/O error of
// the tree, or out of memory.
fn refused_plan(fault: PlanFault) -> Refused
    ensures { IsRefusalOfPlanFault fault result }
{
    match fault {
        PlanFault::Reserved { path } => Refused::Refusal(Refusal::Reserved { path }),
        PlanFault::PathClash { path, other } => {
            Refused::Refusal(Refusal::PathClash { path, other })
        }
        PlanFault::Owned {
            path,
            first,
            second,
        } => Refused::Refusal(Refusal::Owned {
            path,
            first,
            second,
        }),
        PlanFault::Disk => Refused::Disk,
        PlanFault::Memory => Refused::Memory,
    }
}

/// Tests that no trigger of a member is due after the change, unless scripts may be skipped
/// (`--no-scripts`, the argument `no_scripts`).
///
/// # Errors
///
/// `TriggerNeeded` of the first package whose trigger is due, or `Memory`.
fn test_triggers(
    alloc: Global,
    no_scripts: bool,
    members: &Members<'_>,
    plan: &FilePlan,
) -> Result<(), Refused>
    // The result is Ok exactly if the definition refuses nothing, and otherwise its refusal, unless
    // memory ran out.
    ensures { Agrees (λ _. true) result
        (unless_trigger_due no_scripts (planned_paths plan.now) (members_of members.now)) }
{
    if no_scripts {
        return Ok(());
    }
    let folders = touched_folders(alloc, plan)?;
    match first_due(members, &folders) {
        Some(place) => {
            let name = member_name(alloc, members, place)?;
            Err(Refused::Refusal(Refusal::TriggerNeeded { name }))
        }
        None => Ok(()),
    }
}

/// The name of the member at this place (index): a package that is installed after the change.
fn member_name(alloc: Global, members: &Members<'_>, place: usize) -> Result<Text, AllocError>
    // The place is one of the members.
    requires { place < length (members_of members.now) }
    ensures { IfOk result (λ name. name ≡ member_name_at_place (members_of members.now) place) }
{
    let view = members.view(place);
    Text::of(alloc, view.info().name())
}
