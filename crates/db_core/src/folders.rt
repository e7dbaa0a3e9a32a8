//! Writes the folders of a package, with those of their files that the package owns. `packages.rt`
//! calls this for each package.
//!
//! The rule is in `docs/formats.md`, "The database after a change". Each folder is written with its
//! name and its access list, also if it is empty. Of its files, those are written that the package
//! owns. The fields are in "Schemas", tables 5 and 7.
ghost use Rattle.adb_copy.specs.Known.{AreRememberedBlobsOfDraft};
ghost use Rattle.adb_copy.specs.adb_fields.Fields.{are_all_sound, array_at};
ghost use Rattle.adb_copy.specs.adb_fields.Repeated.{folders_in, list_of};
ghost use Rattle.adb_view.specs.Values.{entries_in, is_sound, value_at};
ghost use Rattle.adb_view.specs.declared.tables.Kind.TheVariants as Kinds;
ghost use Rattle.adb_view.specs.declared.tables.Which.TheVariants as Tables;
ghost use Rattle.adb_copy.specs.adb_values.Drafts.{draft_with};
ghost use Rattle.adb_view.specs.Adb.{payload_of};
ghost use Rattle.adb_view.specs.Entries.{array_entries};
ghost use Rattle.adb_view.specs.Plain.{array_or_null};
ghost use Rattle.db_core.specs.NewDatabase.{folder_file_count, folder_in_new_database, folders_in_new_database, owned_entries_without_zeros, total_of};
ghost use Rattle.std.specs.Prelude.{◌≡◌, ◌<◌, true, false, OnOk, Some, drop, length, slice_get, unwrap_or};

use adb_copy::{Draft, KnownTexts, field_word, objects_field, write_acl, write_file};
use adb_view::field_indexes::{
    DIR_ACL_INDEX, DIR_FILES_INDEX, DIR_NAME_INDEX, PACKAGE_PATHS_INDEX,
};
use adb_view::{Adb, Arr, Val, Which, entry_word};
use std::alloc::AllocError;

/// Writes the folders of the package with the word `pkg`, with the files whose flag is set: `flags`
/// has one flag for each file of the package, in order. `known` remembers long texts that the draft
/// has already.
pub(crate) fn write_folders(
    draft: &mut Draft,
    adb: Adb<'_>,
    known: &mut KnownTexts,
    pkg: Val,
    flags: &[bool],
) -> Result<(), AllocError>
    // The word `pkg` refers to a package.
    requires sound { is_sound (payload_of adb) (Kinds.Obj Tables.Package) pkg ≡ true }
    // Each text of this payload that `known` remembers has the remembered word in the draft.
    requires known { AreRememberedBlobsOfDraft (payload_of adb) draft.old known.old }
    // On Ok, the array of the folders is added to the draft.
    ensures folders { OnOk result (draft.new
        ≡ draft_with (array_or_null (folders_in_new_database (folders_in
        (value_at (payload_of adb.entry) (Kinds.Obj Tables.Package) pkg)) flags.now)) draft.old) }
    // On Ok, each remembered text has the remembered word in the new draft.
    ensures known { OnOk result (AreRememberedBlobsOfDraft
        (payload_of adb.entry) draft.new known.new) }
{
    let folders = objects_field(adb, Which::Package, pkg, PACKAGE_PATHS_INDEX, Which::Dir);
    write_folder_list(draft, adb, known, folders, flags)
}

/// The flags that are left after those of the files of a package: those of the next packages.
pub(crate) fn flags_behind<'f>(adb: Adb<'_>, pkg: Val, flags: &'f [bool]) -> &'f [bool]
    // The word `pkg` refers to a package.
    requires { is_sound (payload_of adb) (Kinds.Obj Tables.Package) pkg ≡ true }
    // As many flags are dropped as the folders of the package have files.
    ensures { result.now ≡ drop (total_of folder_file_count (folders_in
        (value_at (payload_of adb.entry) (Kinds.Obj Tables.Package) pkg))) flags.entry.now }
{
    let folders = objects_field(adb, Which::Package, pkg, PACKAGE_PATHS_INDEX, Which::Dir);
    flags_after_folders(adb, folders, flags)
}

/// Writes folders with the files whose flag is set. `flags` are the flags from the first file of
/// the first folder on.
fn write_folder_list<'a>(
    draft: &mut Draft,
    adb: Adb<'a>,
    known: &mut KnownTexts,
    folders: Arr<'a>,
    flags: &[bool],
) -> Result<(), AllocError>
    // Each entry of `folders` refers to a folder.
    requires sound { are_all_sound (payload_of adb) (Kinds.Obj Tables.Dir) (array_entries folders)
        ≡ true }
    // Each text of this payload that `known` remembers has the remembered word in the draft.
    requires known { AreRememberedBlobsOfDraft (payload_of adb) draft.old known.old }
    // On Ok, the array of the folders is added to the draft.
    ensures folders { OnOk result (draft.new
        ≡ draft_with (array_or_null (folders_in_new_database (list_of
        (entries_in (array_at (payload_of adb.entry) (Kinds.Obj Tables.Dir)
        (array_entries folders.entry)))) flags.now)) draft.old) }
    // On Ok, each remembered text has the remembered word in the new draft.
    ensures known { OnOk result (AreRememberedBlobsOfDraft
        (payload_of adb.entry) draft.new known.new) }
{
    draft.open_list()?;
    // The flags from the first file of the next folder on.
    let mut left = flags;
    for i in 0..folders.len() {
        let folder = entry_word(folders, i);
        write_folder(draft, adb, known, folder, left)?;
        // The next folder takes the flags after those of this one.
        left = flags_after_folder(adb, folder, left);
    }
    draft.close_array()
}

/// The flags that are left after those of the files of these folders.
fn flags_after_folders<'a, 'f>(adb: Adb<'a>, folders: Arr<'a>, flags: &'f [bool]) -> &'f [bool]
    // Each entry of `folders` refers to a folder.
    requires { are_all_sound (payload_of adb) (Kinds.Obj Tables.Dir) (array_entries folders)
        ≡ true }
    // As many flags are dropped as these folders have files.
    ensures { result.now ≡ drop (total_of folder_file_count (list_of (entries_in
        (array_at (payload_of adb.entry) (Kinds.Obj Tables.Dir) (array_entries folders.entry)))))
        flags.entry.now }
{
    let mut left = flags;
    for i in 0..folders.len() {
        left = flags_after_folder(adb, entry_word(folders, i), left);
    }
    left
}

/// The flags that are left after those of the files of the folder with this word: none if there are
/// fewer flags than files.
fn flags_after_folder<'f>(adb: Adb<'_>, folder: Val, flags: &'f [bool]) -> &'f [bool]
    // The word `folder` refers to a folder.
    requires { is_sound (payload_of adb) (Kinds.Obj Tables.Dir) folder ≡ true }
    // As many flags are dropped as the folder has files.
    ensures { result.now ≡ drop
        (folder_file_count (value_at (payload_of adb.entry) (Kinds.Obj Tables.Dir) folder))
        flags.entry.now }
{
    let files = objects_field(adb, Which::Dir, folder, DIR_FILES_INDEX, Which::File);
    let count = files.len();
    if count >= flags.len() {
        return &flags[..0];
    }
    &flags[count..]
}

/// Writes the folder with the word `folder`, with its access list and those of its files whose flag
/// is set. `flags` are the flags from its first file on.
fn write_folder(
    draft: &mut Draft,
    adb: Adb<'_>,
    known: &mut KnownTexts,
    folder: Val,
    flags: &[bool],
) -> Result<(), AllocError>
    // The word `folder` refers to a folder.
    requires sound { is_sound (payload_of adb) (Kinds.Obj Tables.Dir) folder ≡ true }
    // Each text of this payload that `known` remembers has the remembered word in the draft.
    requires known { AreRememberedBlobsOfDraft (payload_of adb) draft.old known.old }
    // On Ok, the folder is added to the draft, with the files whose flag is set.
    ensures folder { OnOk result (draft.new ≡ draft_with (folder_in_new_database
        (value_at (payload_of adb.entry) (Kinds.Obj Tables.Dir) folder) flags.now) draft.old) }
    // On Ok, each remembered text has the remembered word in the new draft.
    ensures known { OnOk result (AreRememberedBlobsOfDraft
        (payload_of adb.entry) draft.new known.new) }
{
    draft.open_list()?;
    known.write_field(draft, adb, Which::Dir, folder, DIR_NAME_INDEX)?;
    let acl = field_word(adb, Which::Dir, folder, DIR_ACL_INDEX);
    write_acl(draft, adb, known, acl)?;
    let files = objects_field(adb, Which::Dir, folder, DIR_FILES_INDEX, Which::File);
    write_files(draft, adb, known, files, flags)?;
    draft.close_object()
}

/// Writes the array of those files whose flag is set, in their order. `flags` are the flags from
/// the first file on.
fn write_files<'a>(
    draft: &mut Draft,
    adb: Adb<'a>,
    known: &mut KnownTexts,
    files: Arr<'a>,
    flags: &[bool],
) -> Result<(), AllocError>
    // Each entry of `files` refers to a file.
    requires sound { are_all_sound (payload_of adb) (Kinds.Obj Tables.File) (array_entries files)
        ≡ true }
    // Each text of this payload that `known` remembers has the remembered word in the draft.
    requires known { AreRememberedBlobsOfDraft (payload_of adb) draft.old known.old }
    // On Ok, the array of the files whose flag is set is added to the draft.
    ensures files { OnOk result (draft.new
        ≡ draft_with (array_or_null (owned_entries_without_zeros (list_of
        (entries_in (array_at (payload_of adb.entry) (Kinds.Obj Tables.File)
        (array_entries files.entry)))) flags.now)) draft.old) }
    // On Ok, each remembered text has the remembered word in the new draft.
    ensures known { OnOk result (AreRememberedBlobsOfDraft
        (payload_of adb.entry) draft.new known.new) }
{
    draft.open_list()?;
    for i in 0..files.len() {
        if is_set(flags, i) {
            write_file(draft, adb, known, entry_word(files, i))?;
        }
    }
    draft.close_array()
}

/// Whether the flag at a place, counted from 0, exists and is set; a file without a flag is owned
/// by nobody.
fn is_set(flags: &[bool], i: usize) -> bool
    ensures { result ≡ unwrap_or (slice_get flags.now i) false }
{
    if i >= flags.len() {
        return false;
    }
    flag_at(flags, i)
}

/// The flag at a place, counted from 0.
fn flag_at(flags: &[bool], i: usize) -> bool
    requires { i < length flags.now }
    ensures { slice_get flags.now i ≡ Some result }
{
    flags[i]
}
