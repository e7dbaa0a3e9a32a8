//! Writes the container of the database after a change.
//! The rules are in `docs/formats.md`, "The database after a change" and "Container"; the limits of
//! a payload in "Canonical layout"; the condition on the flags in `docs/DECISIONS.md`, "The
//! installed database".
ghost use Rattle.adb_copy.specs.adb_values.Drafts.{draft_with};
ghost use Rattle.adb_copy.specs.adb_values.Written.{IsWrittenAs};
ghost use Rattle.adb_sound.specs.adb_write.Canonical.{payload_or_counts_at_overflow, MOST_BYTES};
ghost use Rattle.adb_sound.specs.adb_schema.SoundContainers.{IsSoundContainerExceptContents};
ghost use Rattle.adb_view.specs.declared.tables.Which.TheVariants as Tables;
ghost use Rattle.db_core.specs.Members.{listings_of_members};
ghost use Rattle.db_core.specs.OwnedListings.{owned_listings};
ghost use Rattle.db_core.specs.Seen.{members_of};
ghost use Rattle.db_core.specs.SoundMembers.{HaveOneOwnerPerPathAndNoneReserved};
ghost use Rattle.db_core.specs.NewDatabase.{database_of, database_value};
ghost use Rattle.std.specs.Prelude.{◌≡◌, ◌≤◌, IfOk, OnOk, length};

use crate::laws::{a_database_of_sound_packages_may_be_the_root, a_written_database_is_read_back};
use crate::members::Members;
use crate::owned::Owned;
use crate::packages::write_packages;
use adb_copy::Draft;
use adb_schema::IDB_WORD;
use adb_write::{WriteFault, file_in_place};
use std::alloc::{AllocError, Global};

/// Writes the database that lists these members, and of their files those that they own: the
/// container's bytes. There is one flag for each file, in the order of members, folders and files;
/// a file without a flag is not owned. The database passes all tests if no path is owned by two
/// members, and none is reserved.
///
/// # Errors
///
/// `TooLarge` if the database exceeds a limit of the writer, or `Memory`.
pub fn write_db(alloc: Global, members: &Members<'_>, owned: &Owned) -> Result<Vec<u8>, WriteFault>
    // The file is that of the new database, or too large as the definition says, or memory ran out.
    ensures written { IsWrittenAs (λ file. file.items) result
        (database_of (members_of members.now) owned.now) }
    // The file passes all tests of a database if no path has two owners, and none is reserved.
    ensures sound { IfOk result (λ file.
        HaveOneOwnerPerPathAndNoneReserved (owned_listings (listings_of_members
        (members_of members.now)) owned.now)
        → IsSoundContainerExceptContents Tables.Idb file.items) }
{
    members.members_are_in_order();
    members.packages_are_sound();
    a_database_of_sound_packages_may_be_the_root();
    a_written_database_is_read_back();
    let payload = match database_payload(alloc, members, owned.as_slice()) {
        Ok(payload) => payload,
        Err(fault) => return Err(fault),
    };
    Ok(file_in_place(IDB_WORD, payload)?)
}

/// For how many bytes the payload of a new database gets memory at first: as many as the old
/// database has, and a sixteenth more. A payload that outgrew its memory would leave smaller copies
/// of itself in memory.
fn first_capacity(members: &Members<'_>) -> usize {
    let db = members.db();
    if db.len() == 0 {
        return 0;
    }
    let len = db.package(0).adb().payload().len();
    len.saturating_add(len / 16)
}

/// The payload of the database that lists these members, and of their files those whose flag is
/// set.
fn database_payload(
    alloc: Global,
    members: &Members<'_>,
    flags: &[bool],
) -> Result<Vec<u8>, WriteFault>
    // The payload is that of the new database, or too large as the definition says, or memory
    // ran out.
    ensures written { IsWrittenAs (λ payload. payload.items) result
        (payload_or_counts_at_overflow (database_value (members_of members.now) flags.now)) }
    // The payload is within the limit of bytes.
    ensures small { IfOk result (λ payload. length payload.items ≤ MOST_BYTES) }
{
    let mut draft = Draft::with_capacity(alloc, first_capacity(members))?;
    write_database(alloc, &mut draft, members, flags)?;
    draft.finish()
}

/// Writes the values of the database into a draft.
fn write_database(
    alloc: Global,
    draft: &mut Draft,
    members: &Members<'_>,
    flags: &[bool],
) -> Result<(), AllocError>
    // On Ok, the value of the new database is added to the draft.
    ensures { OnOk result
        (draft.new ≡ draft_with (database_value (members_of members.now) flags.now) draft.old) }
{
    draft.open_list()?;
    write_packages(alloc, draft, members, flags)?;
    draft.close_object()
}
