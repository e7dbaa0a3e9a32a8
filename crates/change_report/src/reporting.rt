//! The whole report of a change that is made, and its last line, the sum over the packages after
//! the change. The lines and their order are defined in `docs/commands.md`, "`add` and `del`", part
//! "What is reported".

ghost use Rattle.base_core.specs.Files.{Files};
ghost use Rattle.own_core.specs.FileChange.{FileChange};
ghost use Rattle.change_outcome.specs.ChangeOutcome.{ChangeWishes, change_report, member_installed_size, member_sum_line};
ghost use Rattle.change_outcome.specs.Triggers.{trigger_lines};
ghost use Rattle.change_report.specs.Reported.{IsReportedOf, replacement_reported};
ghost use Rattle.change_outcome.specs.db_core.Seen.{members_of};
ghost use Rattle.change_report.specs.Due.{planned_paths};
ghost use Rattle.std.specs.Prelude.{◌≡◌, ◌++◌, ℕ, List, IfOk, OnOk, ◌<◌, length, sum_by, Some, option_map, slice_get};

use crate::configuration::push_configuration_lines;
use crate::due::{push_trigger_lines, touched_folders};
use base_core::Words;
use change_outcome::{
    Changes, Db, Members, Sealed, Trace, push_change_lines, push_stay_lines, push_sum_line,
};
use own_core::FilePlan;
use report_core::Report;
use std::alloc::{AllocError, Global};

/// The parts of a change that its report describes.
#[derive(Clone, Copy)]
pub struct ReportedChange<'c, 'd, 'm> {
    /// The database: the packages before the change.
    pub db: &'c Db<'d>,
    /// All candidates of the command.
    pub pool: &'c Sealed<'d>,
    /// The places in `pool` of the candidates that are selected.
    pub trace: &'c Trace,
    /// The change of each package that changes.
    pub changes: &'c Changes<'d>,
    /// The names that were to be removed: the operands of `del`.
    pub to_remove: &'c Words,
    /// The packages after the change.
    pub members: &'c Members<'m>,
    /// The plan of the files of the change, for the lines on configuration and triggers.
    pub plan: &'c FilePlan,
}

/// The report of a change that is made, not only simulated. All its memory is allocated before
/// anything is written.
///
/// # Errors
///
/// Out of memory.
pub fn change_report(
    alloc: Global,
    reported: &ReportedChange<'_, '_, '_>,
) -> Result<Report, AllocError>
    // If the parts are those of this change, the report is that of the definition.
    ensures { IfOk result (λ report. (again : List (List ℕ)) (wishes : ChangeWishes)
        (change : FileChange) (files : Files)
        → IsReportedOf reported.now again wishes change files
        → report ≡ change_report (replacement_reported reported.now again) wishes change files) }
{
    let mut report = Report::new(alloc);
    push_change_lines(&mut report, reported.changes)?;
    push_stay_lines(
        alloc,
        &mut report,
        reported.db,
        reported.pool,
        reported.trace,
        reported.to_remove,
    )?;
    push_configuration_lines(alloc, &mut report, reported.plan)?;
    push_planned_triggers(alloc, &mut report, reported.plan, reported.members)?;
    push_member_sum(&mut report, reported.members)?;
    Ok(report)
}

/// Adds the lines of the triggers that the plan of a change makes due.
fn push_planned_triggers(
    alloc: Global,
    report: &mut Report,
    plan: &FilePlan,
    members: &Members<'_>,
) -> Result<(), AllocError>
    ensures { OnOk result (report.new ≡ report.old
        ++ trigger_lines (planned_paths plan.now) (members_of members.now)) }
{
    let folders = touched_folders(alloc, plan)?;
    push_trigger_lines(report, members, &folders)?;
    Ok(())
}

/// Adds the last line: how many bytes and packages there are after a change, by the installed sizes
/// in the information of the packages.
pub(crate) fn push_member_sum(report: &mut Report, members: &Members<'_>) -> Result<(), AllocError>
    ensures { OnOk result (report.new ≡ report.old ++ member_sum_line (members_of members.now)) }
{
    let bytes = installed_bytes(members);
    push_sum_line(report, bytes, members.len() as u128)?;
    Ok(())
}

/// The bytes that the packages take when they are installed, by their installed sizes. A u128 can
/// hold the sum of any number of them.
fn installed_bytes(members: &Members<'_>) -> u128
    ensures { result ≡ sum_by member_installed_size (members_of members.now) }
{
    let mut sum: u128 = 0;
    for i in 0..members.len() {
        sum += size_at(members, i) as u128;
    }
    sum
}

/// The installed size of the package at a place, counted from 0.
fn size_at(members: &Members<'_>, i: usize) -> u64
    // The place is one of the members.
    requires { i < length (members_of members.now) }
    ensures { option_map member_installed_size (slice_get (members_of members.now) i)
        ≡ Some result }
{
    members.view(i).info().installed_size()
}
