//! What a change writes: the staged writes of its plan, of the database and of world, used by
//! `rendering.rt`. The rules are in `docs/commands.md`, "What a change does with files" and "`add`
//! and `del`", part "What is written".
ghost use Rattle.change_report.specs.own_core.PlanLists.{sorted_distinct_names};
ghost use Rattle.change_report.specs.db_core.Seen.{members_of};
ghost use Rattle.engine_core.specs.Writing.{HasPackageOfEachAdded, IsFileWrite, IsSourceOfWrite, IsWriteOfChange, package_at, database_and_world_names, record_writes, name_of_write};
ghost use Rattle.change_report.specs.journal_intent.FreeNames.{HaveNoRepeats};
ghost use Rattle.base_core.specs.ByteOrder.{bytes_cmp};
ghost use Rattle.base_core.specs.Sorted.{sorted_by};
ghost use Rattle.change_report.specs.own_core.Planned.{HasSources, IsOfAddedFile, written_names};
ghost use Rattle.change_report.specs.own_core.WritesSeen.{write_seen, writes_in};
ghost use Rattle.journal_staging.specs.declared.writes.StagedWrite.{StagedWrite as StagedWriteValue};
ghost use Rattle.std.specs.Ordering.{on};
ghost use Rattle.std.specs.Prelude.{◌≡◌, ◌++◌, List, All, IfOk, OnOk, map};

use crate::targets::target_of;
use base_core::{Name, Names};
use change_outcome::Arrivals;
use change_report::{FilePlan, Members, Write};
use journal_staging::{PackagedFile, Source, StagedWrite};
use std::alloc::{AllocError, Global};

/// The writes of the database and of world. A file whose bytes are None is not written.
#[derive(Clone, Copy)]
pub(crate) struct RecordWrites<'c> {
    /// The name of the database's file.
    pub database_name: &'c Name,
    /// The new bytes of the database; None if its file is not written.
    pub database: Option<&'c [u8]>,
    /// The name of world's file.
    pub world_name: &'c Name,
    /// The new text of world; None if its file is not written.
    pub world: Option<&'c [u8]>,
}

/// The source of a planned write: the text of a link, or the file of the package that was read for
/// its member.
fn source_of<'c>(members: &Members<'c>, arrivals: &'c Arrivals, write: &Write) -> Source<'c>
    // The write is of a file of an added package.
    requires file { IsOfAddedFile (members_of members.now) (write_seen write.now) }
    // Each added package was read.
    requires packages { HasPackageOfEachAdded (members_of members.now) arrivals.now }
    // The source is the text of the file's link, or the file in its package.
    ensures { IsSourceOfWrite (members_of members.now) (package_at arrivals.now)
        (write_seen write.now) result }
{
    let target = target_of(members, write);
    if !target.is_empty() {
        return Source::Link(target);
    }
    match arrivals.package(write.member as usize) {
        Some(package) => Source::File(PackagedFile {
            package,
            member: write.member,
            folder: write.path,
            file: write.file,
        }),
        // The write is of an added package, and each added package was read.
        None => unreachable!(),
    }
}

/// Appends to `writes` one staged write for each write of the plan, in the order of the plan.
fn push_files<'c>(
    writes: &mut Vec<StagedWrite<'c>>,
    members: &Members<'c>,
    arrivals: &'c Arrivals,
    plan: &'c FilePlan,
) -> Result<(), AllocError>
    // Each planned write is of a file of an added package.
    requires sources { HasSources (members_of members.now) plan.now }
    // Each added package was read.
    requires packages { HasPackageOfEachAdded (members_of members.now) arrivals.now }
    // The appended writes have the names of the plan, and each has the source that the plan says.
    ensures { OnOk result ((files : List StagedWriteValue)
        × (writes.new.items ≡ writes.old.items ++ files)
        × (map name_of_write files ≡ written_names plan.entry.now)
        × All (IsFileWrite (members_of members.now) (package_at arrivals.entry.now)
        (writes_in plan.entry.now.writes)) files) }
{
    let planned = plan.writes();
    for i in 0..planned.len() {
        let write = planned.get(i);
        let source = source_of(members, arrivals, write);
        writes.push(StagedWrite {
            name: &write.name,
            source,
        })?;
    }
    Ok(())
}

/// Appends the write of the database or of world, if its file has bytes to be written.
fn push_record<'c>(
    writes: &mut Vec<StagedWrite<'c>>,
    name: &'c Name,
    bytes: Option<&'c [u8]>,
) -> Result<(), AllocError>
    ensures { OnOk result (writes.new.items
        ≡ writes.old.items ++ record_writes name.entry bytes.entry) }
{
    if let Some(bytes) = bytes {
        writes.push(StagedWrite {
            name,
            source: Source::Bytes(bytes),
        })?;
    }
    Ok(())
}

/// Sorts writes by the byte order of their names, in which the intent (journal entry) lists them.
fn sort_writes(writes: &mut Vec<StagedWrite<'_>>) -> Result<(), AllocError>
    ensures { OnOk result (writes.new.items
        ≡ sorted_by (on name_of_write bytes_cmp) writes.old.items) }
{
    writes.sort_by(|one, other| one.name.as_bytes().cmp(other.name.as_bytes()))?;
    Ok(())
}

/// What a change writes, files of packages, database and world, in byte order of the names.
pub(crate) fn writes_of<'c>(
    alloc: Global,
    members: &Members<'c>,
    arrivals: &'c Arrivals,
    plan: &'c FilePlan,
    records: &RecordWrites<'c>,
) -> Result<Vec<StagedWrite<'c>>, AllocError>
    // Each planned write is of a file of an added package.
    requires sources { HasSources (members_of members.now) plan.now }
    // Each added package was read.
    requires packages { HasPackageOfEachAdded (members_of members.now) arrivals.now }
    // No name is written twice.
    requires once { HaveNoRepeats (written_names plan.now ++ database_and_world_names records.now) }
    // The names are those that the plan writes, and those of the database and world if they are
    // written, in byte order.
    ensures names { IfOk result (λ writes. map name_of_write writes.items
        ≡ sorted_distinct_names (written_names plan.entry.now
        ++ database_and_world_names records.now)) }
    // Each write is that of a file of the plan, of the database, or of world.
    ensures each { IfOk result (λ writes. All (IsWriteOfChange (members_of members.now)
        (package_at arrivals.entry.now) (writes_in plan.entry.now.writes) records.now)
        writes.items) }
{
    let mut writes = Vec::new(alloc);
    push_files(&mut writes, members, arrivals, plan)?;
    push_record(&mut writes, records.database_name, records.database)?;
    push_record(&mut writes, records.world_name, records.world)?;
    sort_writes(&mut writes)?;
    Ok(writes)
}

/// The names of writes, in the same order.
pub(crate) fn names_of(alloc: Global, writes: &[StagedWrite<'_>]) -> Result<Names, AllocError>
    ensures { IfOk result (λ names. names ≡ map name_of_write writes.now) }
{
    let mut names = Names::new(alloc);
    for write in writes {
        names.push(write.name.copy(alloc)?)?;
    }
    Ok(names)
}
