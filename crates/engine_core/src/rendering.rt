//! A change is rendered: the bytes of the database and of world, what is written, the journal entry
//! and the report are made in memory. The rules are in `docs/commands.md`, "`add` and `del`" (what
//! is written, reported and refused), in `docs/formats.md`, "The database after a change", and in
//! `docs/crash-safety.md`, "A change of several files".
ghost use Rattle.change_outcome.specs.adb_write.Canonical.{counts_at_first_overflow};
ghost use Rattle.base_core.specs.Files.{Files};
ghost use Rattle.base_core.specs.Tree.{TreeState};
ghost use Rattle.change_report.specs.change_inputs.Answers.{Agrees};
ghost use Rattle.change_report.specs.change_inputs.Seen.{inputs_seen};
ghost use Rattle.change_report.specs.change_outcome.ChangeOutcome.{change_report, has_actions, packages_before_and_after_with_purge, or_result_too_large, unless_overflow};
ghost use Rattle.change_report.specs.change_outcome.MembersAfter.{MemberFound};
ghost use Rattle.change_report.specs.db_core.Seen.{members_of};
ghost use Rattle.change_report.specs.db_core.NewDatabase.{database_of};
ghost use Rattle.change_report.specs.journal_intent.IntentValue.{intent_of_lists, value_of_intent};
ghost use Rattle.engine_core.specs.Preparing.{AreRecordWrites, AreNewRecordsOf, IsPlannedFromSomeFiles, IsPlanned, bytes_if, inputs_of_plan, replacement_of_plan, wishes_of_plan};
ghost use Rattle.engine_core.specs.Rendering.{AreWritesOf, IsRefusedForOverflow, IsRendered, IsStageOf, removals_of_plan};
ghost use Rattle.engine_core.specs.Writing.{name_of_write};
ghost use Rattle.std.specs.Option.{option_copied};
ghost use Rattle.std.specs.Prelude.{◌≡◌, List, map, not, true, IfErr, IfOk};

use crate::planning::Plan;
use crate::records::{begin_stage, is_absent_or_different, new_database};
use crate::removals::removals_of;
use crate::wishes::names_to_remove;
use crate::writes::{RecordWrites, names_of, writes_of};
use base_core::{Name, Names, Text};
use change_outcome::a_package_that_was_read_is_that_of_its_file;
use change_report::{
    Changes, Loaded, Refused, ReportedChange, Stage, change_report,
    places_lead_to_packages_and_candidates,
};
use journal_staging::StagedWrite;
use root_names::{database_name, world_name};
use std::alloc::{AllocError, Global};

/// A change as it is to be committed: its writes, the journal entry, and the report.
#[derive(Drop)]
pub(crate) struct Rendered<'c> {
    /// What is written, in byte order of the names: files of packages, the database and world.
    pub writes: Vec<StagedWrite<'c>>,
    /// The journal entry, with the stage of the writes; none if nothing is written or removed.
    pub stage: Option<Stage>,
    /// The report.
    pub report: Text,
}

/// Renders a change, given its database and world. All memory that its commit needs is allocated.
///
/// # Errors
///
/// `ResultTooLarge` if the journal entry exceeds a limit of the writer, or `Memory`.
pub(crate) fn render<'c>(
    alloc: Global,
    plan: &'c Plan<'_, '_, '_>,
    records: &'c NewRecords,
) -> Result<Rendered<'c>, Refused>
    // The plan is that of a change to packages that were read, over some files.
    requires plan { (history : List TreeState) × IsPlannedFromSomeFiles history plan.now }
    // The database and world have the names of their files, and the text of the new world.
    requires records { AreNewRecordsOf (inputs_of_plan plan.now) records.now }
    // The writes, the journal entry and the report are those of the plan.
    ensures rendered { IfOk result (IsRendered plan.entry.now records.entry.now) }
    // Or the change is refused, since its journal entry exceeds a limit; or memory ran out.
    ensures refused { IfErr result (IsRefusedForOverflow plan.entry.now records.entry.now) }
{
    // A law that the proof needs; it has no effect at run time.
    a_package_that_was_read_is_that_of_its_file();
    // The writes of the database and of world.
    let record_writes = record_writes_of(plan.packages.selection.loaded, records);
    let arrivals = &plan.packages.arrivals;
    let writes = writes_of(alloc, &plan.members, arrivals, &plan.files, &record_writes)?;
    let stage = journal_entry(alloc, plan, &writes)?;
    let report = report_of(alloc, plan)?;
    Ok(Rendered {
        writes,
        stage,
        report,
    })
}

/// The journal entry of a change that has these writes; none if it removes and writes nothing.
///
/// # Errors
///
/// `ResultTooLarge` if the journal entry exceeds a limit of the writer, or `Memory`.
fn journal_entry(
    alloc: Global,
    plan: &Plan<'_, '_, '_>,
    writes: &[StagedWrite<'_>],
) -> Result<Option<Stage>, Refused>
    // The plan is that of a change to packages that were read, over some files.
    requires plan { (history : List TreeState) × IsPlannedFromSomeFiles history plan.now }
    // The writes are those of the plan and of some new database and world.
    requires writes { (records : NewRecords) × AreNewRecordsOf (inputs_of_plan plan.now) records
        × AreWritesOf plan.now records writes.now }
    // The stage is the new one of the names that are removed and written, or None without any name.
    ensures stage { IfOk result
        (IsStageOf (removals_of_plan plan.now) (map name_of_write writes.now)) }
    // Refused exactly if the value of the intent exceeds a limit of the writer.
    ensures told { Agrees (λ _. true) result (unless_overflow (counts_at_first_overflow
        (value_of_intent
        (intent_of_lists (removals_of_plan plan.now) (map name_of_write writes.now)))) true) }
{
    let loaded = plan.packages.selection.loaded;
    let removals = removals_of(alloc, plan.files.removals(), loaded.is_from_text())?;
    let names = names_of(alloc, writes)?;
    if is_idle(&removals, &names) {
        return Ok(None);
    }
    // Two laws: the elements of a list of names are names, so both lists give one intent.
    removals.are_names();
    names.are_names();
    let stage = begin_stage(alloc, removals, names)?;
    Ok(Some(stage))
}

/// The database and world after a change, and the names of their files.
pub(crate) struct NewRecords {
    /// The bytes of the new database.
    pub database: Vec<u8>,
    /// The text of the new world.
    pub world: Text,
    /// The name of the database's file.
    pub database_name: Name,
    /// The name of world's file.
    pub world_name: Name,
}

/// Drops the parts in one call, so that a function that gives up has one drop and not many.
impl Drop for NewRecords {
    fn drop(self) {
        let NewRecords {
            database: _,
            world: _,
            database_name: _,
            world_name: _,
        } = self;
    }
}

/// The bytes of the database that lists the packages after a change, and the text of the new world.
pub(crate) fn database_and_world_after_change(
    alloc: Global,
    plan: &Plan<'_, '_, '_>,
) -> Result<NewRecords, Refused>
    // The bytes of the new database, or the refusal if it exceeds a limit of the writer.
    ensures told { Agrees (λ records. records.database.items) result
        (or_result_too_large (database_of (members_of plan.now.members) plan.now.files.owned)) }
    // World has the text of the new world, and both have the names of their files.
    ensures records { IfOk result (AreNewRecordsOf (inputs_of_plan plan.now)) }
{
    let database = new_database(alloc, &plan.members, plan.files.owned())?;
    let world = plan.packages.selection.loaded.new_world().text(alloc)?;
    let database_name = database_name(alloc)?;
    let world_name = world_name(alloc)?;
    Ok(NewRecords {
        database,
        world,
        database_name,
        world_name,
    })
}

/// The new bytes of a file, if they are to be written: if `is_other`, that is, if the file is
/// absent or has other bytes.
fn bytes_if(is_other: bool, bytes: &[u8]) -> Option<&[u8]>
    ensures { option_copied result ≡ bytes_if is_other bytes.now }
{
    if !is_other {
        return None;
    }
    Some(bytes)
}

/// The writes of the database and of world: the database is written if its file is absent or has
/// other bytes, and world if its text differs.
fn record_writes_of<'c>(loaded: &Loaded, records: &'c NewRecords) -> RecordWrites<'c>
    ensures { AreRecordWrites (inputs_seen loaded.now) records.now result }
{
    let is_other_database = is_absent_or_different(loaded.database_file(), &records.database);
    let is_other_world = loaded.world_text() != records.world.as_bytes();
    RecordWrites {
        database_name: &records.database_name,
        database: bytes_if(is_other_database, &records.database),
        world_name: &records.world_name,
        world: bytes_if(is_other_world, records.world.as_bytes()),
    }
}

/// The report of a change that is made: a line for each package that changes, lines on names to be
/// removed that are kept, on configuration files and on triggers, and the total.
fn report_of(alloc: Global, plan: &Plan<'_, '_, '_>) -> Result<Text, AllocError>
    // The report is that of the definition, for all packages and files by which this plan is made.
    ensures { IfOk result (λ report. (history : List TreeState) (found : List MemberFound)
        (files : Files) → IsPlanned history plan.now found files
        → report ≡ change_report (replacement_of_plan plan.now) (wishes_of_plan plan.now)
        (packages_before_and_after_with_purge (inputs_of_plan plan.now)
        (wishes_of_plan plan.now) found) files) }
{
    // A law that the proof needs; it has no effect at run time.
    places_lead_to_packages_and_candidates();
    let packages = plan.packages;
    let selection = packages.selection;
    let to_remove = names_to_remove(alloc, selection.command)?;
    let changes = Changes::of_names(alloc, &packages.names)?;
    let report = change_report(
        alloc,
        &ReportedChange {
            db: &selection.db,
            pool: &selection.pool,
            trace: &selection.trace,
            changes: &changes,
            to_remove: &to_remove,
            members: &plan.members,
            plan: &plan.files,
        },
    )?;
    Ok(report.into_text())
}

/// Whether a change removes and writes nothing.
fn is_idle(removals: &Names, writes: &Names) -> bool
    ensures { result ≡ not (has_actions
        (record { removals = removals.now; writes = writes.now })) }
{
    if !removals.is_empty() {
        return false;
    }
    writes.is_empty()
}
