//! Writes the packages of a database. `database.rt` calls `write_packages`.
//! The rule is in `docs/formats.md`, "The database after a change": the contents of the database
//! for each package; the fields are in "Schemas", table 7.
ghost use Rattle.adb_copy.specs.Known.{AreRememberedBlobsOfDraft};
ghost use Rattle.adb_view.specs.FieldIndexes.{PACKAGE_INFO_INDEX};
ghost use Rattle.adb_view.specs.Values.{entry_at_index, is_sound, value_at};
ghost use Rattle.adb_view.specs.declared.tables.Kind.TheVariants as Kinds;
ghost use Rattle.adb_view.specs.declared.tables.Which.TheVariants as Tables;
ghost use Rattle.adb_copy.specs.adb_values.Drafts.{draft_with};
ghost use Rattle.adb_view.specs.Adb.{payload_of};
ghost use Rattle.adb_view.specs.Plain.{array_or_null};
ghost use Rattle.db_core.specs.Members.{Member};
ghost use Rattle.db_core.specs.Seen.{members_of, payload_of_old_database};
ghost use Rattle.db_core.specs.NewDatabase.{info_in_new_database, member_file_count, package_in_new_database, packages_in_new_database};
ghost use Rattle.std.specs.Prelude.{◌≡◌, ◌<◌, true, OnOk, Some, drop, length, slice_get, unwrap_or};

use crate::folders::{flags_behind, write_folders};
use crate::members::Members;
use adb_copy::{
    Draft, KnownTexts, field_word, hash_field, int_field, texts_field, write_info, write_int,
    write_scripts, write_text_list,
};
use adb_view::field_indexes::{
    INFO_FILE_SIZE_INDEX, INFO_HASHES_INDEX, PACKAGE_INFO_INDEX, PACKAGE_REPLACES_PRIORITY_INDEX,
    PACKAGE_SCRIPTS_INDEX, PACKAGE_TRIGGERS_INDEX,
};
use adb_view::{Adb, Val, Which};
use std::alloc::{AllocError, Global};

/// Writes the packages of members with the files whose flag is set, by one flag for each file of
/// all members, in order. Kept packages may share long texts, so the written texts of the database
/// are remembered.
pub(crate) fn write_packages(
    alloc: Global,
    draft: &mut Draft,
    members: &Members<'_>,
    flags: &[bool],
) -> Result<(), AllocError>
    // On Ok, the array of the packages in the new database is added to the draft.
    ensures { OnOk result (draft.new
        ≡ draft_with (array_or_null (packages_in_new_database
        (members_of members.now) flags.now)) draft.old) }
{
    let mut known = KnownTexts::new(alloc);
    draft.open_list()?;
    // The flags from the first file of the next package on.
    let mut left = flags;
    for i in 0..members.len() {
        write_member(alloc, draft, members, &mut known, i, left)?;
        // The next package takes the flags after those of this one.
        left = flags_after_member(members, i, left);
    }
    draft.close_array()
}

/// The flags that are left after those of the files of the member at a place, counted from 0.
fn flags_after_member<'f>(members: &Members<'_>, i: usize, flags: &'f [bool]) -> &'f [bool]
    requires { i < length (members_of members.now) }
    // As many flags are dropped as the member lists files.
    ensures { (m : Member) → slice_get (members_of members.now) i ≡ Some m
        → result.now ≡ drop (member_file_count m) flags.entry.now }
{
    let view = members.view(i);
    flags_behind(view.adb(), view.word(), flags)
}

/// Writes the member at a place, counted from 0, with the files whose flag is set, by the flags
/// from its first file on. `known` remembers long texts of the old database that the draft has
/// already; an added package is read from a payload of its own.
fn write_member(
    alloc: Global,
    draft: &mut Draft,
    members: &Members<'_>,
    known: &mut KnownTexts,
    i: usize,
    flags: &[bool],
) -> Result<(), AllocError>
    // The place is that of a member.
    requires within { i < length (members_of members.now) }
    // Each text of the old database that `known` remembers has the remembered word in the draft.
    requires known { AreRememberedBlobsOfDraft
        (payload_of_old_database members.now) draft.old known.old }
    // On Ok, the package of the member is added to the draft.
    ensures value { OnOk result ((m : Member) → slice_get (members_of members.now) i ≡ Some m
        → draft.new ≡ draft_with (package_in_new_database m flags.now) draft.old) }
    // On Ok, each remembered text has the remembered word in the new draft.
    ensures known { OnOk result (AreRememberedBlobsOfDraft
        (payload_of_old_database members.now) draft.new known.new) }
{
    let view = members.view(i);
    let adb = view.adb();
    let pkg = view.word();
    match members.id(i) {
        None => write_package(draft, adb, known, pkg, None, flags),
        Some(id) => {
            // An added package has a payload of its own, so `known` says nothing of its texts.
            let mut own = KnownTexts::new(alloc);
            write_package(draft, adb, &mut own, pkg, Some(id), flags)
        }
    }
}

/// Writes the package with the word `pkg` in the payload of `adb`, with the files whose flag is
/// set, by the flags from its first file on; an added package has an id. `known` remembers long
/// texts of this payload that the draft has already.
fn write_package(
    draft: &mut Draft,
    adb: Adb<'_>,
    known: &mut KnownTexts,
    pkg: Val,
    id: Option<[u8; 32]>,
    flags: &[bool],
) -> Result<(), AllocError>
    // The word `pkg` refers to a package.
    requires sound { is_sound (payload_of adb) (Kinds.Obj Tables.Package) pkg ≡ true }
    // Each text of this payload that `known` remembers has the remembered word in the draft.
    requires known { AreRememberedBlobsOfDraft (payload_of adb) draft.old known.old }
    // On Ok, the package is added to the draft, as it is in the new database.
    ensures value { OnOk result (draft.new ≡ draft_with (package_in_new_database
        (record { pkg = value_at (payload_of adb.entry) (Kinds.Obj Tables.Package) pkg; id = id })
        flags.now) draft.old) }
    // On Ok, each remembered text has the remembered word in the new draft.
    ensures known { OnOk result (AreRememberedBlobsOfDraft
        (payload_of adb.entry) draft.new known.new) }
{
    draft.open_list()?;
    write_member_info(draft, adb, known, pkg, id)?;
    write_folders(draft, adb, known, pkg, flags)?;
    let scripts = field_word(adb, Which::Package, pkg, PACKAGE_SCRIPTS_INDEX);
    write_scripts(draft, adb, known, scripts)?;
    let triggers = texts_field(adb, Which::Package, pkg, PACKAGE_TRIGGERS_INDEX);
    write_text_list(draft, adb, known, triggers)?;
    let priority = int_field(adb, Which::Package, pkg, PACKAGE_REPLACES_PRIORITY_INDEX);
    write_int(draft, priority)?;
    draft.close_object()
}

/// Writes the information of a package. The hash of an added package is its id; a kept package
/// keeps its hash.
fn write_member_info(
    draft: &mut Draft,
    adb: Adb<'_>,
    known: &mut KnownTexts,
    pkg: Val,
    id: Option<[u8; 32]>,
) -> Result<(), AllocError>
    // The word `pkg` refers to a package.
    requires sound { is_sound (payload_of adb) (Kinds.Obj Tables.Package) pkg ≡ true }
    // Each text of this payload that `known` remembers has the remembered word in the draft.
    requires known { AreRememberedBlobsOfDraft (payload_of adb) draft.old known.old }
    // On Ok, the information is added to the draft, as it is in the new database.
    ensures info { OnOk result (draft.new ≡ draft_with (info_in_new_database id (entry_at_index
        (value_at (payload_of adb.entry) (Kinds.Obj Tables.Package) pkg) PACKAGE_INFO_INDEX))
        draft.old) }
    // On Ok, each remembered text has the remembered word in the new draft.
    ensures known { OnOk result (AreRememberedBlobsOfDraft
        (payload_of adb.entry) draft.new known.new) }
{
    let info = field_word(adb, Which::Package, pkg, PACKAGE_INFO_INDEX);
    // The hash that the package's information has now.
    let own = hash_field(adb, Which::PkgInfo, info, INFO_HASHES_INDEX);
    let len = int_field(adb, Which::PkgInfo, info, INFO_FILE_SIZE_INDEX);
    write_info(draft, adb, known, info, hash_after(&id, own), len)
}

/// The hash of a package in the new database: its id if it is added, otherwise `own`, which is its
/// hash in the old database.
fn hash_after<'a>(id: &'a Option<[u8; 32]>, own: &'a [u8]) -> &'a [u8]
    ensures { result.now ≡ unwrap_or id.entry.now own.entry.now }
{
    match id {
        Some(id) => id.as_slice(),
        None => own,
    }
}
