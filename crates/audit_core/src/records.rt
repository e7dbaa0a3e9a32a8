//! The records of the files that the packages of a database list, in byte order of their paths.
//! `audit` compares files with them. The rules are in `docs/formats.md`, "Schemas", tables 4, 5, 7
//! and 9.

ghost use Rattle.path_clashes.specs.adb_fields.ListValue.{list_value};
ghost use Rattle.path_clashes.specs.adb_fields.Repeated.{list_of};
ghost use Rattle.db_core.specs.adb_schema.Views.{package_value};
ghost use Rattle.adb_view.specs.Values.{count_of, entries_in, entry_at_index};
ghost use Rattle.audit_core.specs.Records.{database_records, file_record, folder_records, package_records, record_path_cmp, records_by_path};
ghost use Rattle.audit_core.specs.Seen.{record_seen};
ghost use Rattle.db_core.specs.Seen.{packages_of};
ghost use Rattle.base_core.specs.Sorted.{sorted_by};
ghost use Rattle.std.specs.List.{flat_map};
ghost use Rattle.std.specs.Option.{option_map_or};
ghost use Rattle.std.specs.Prelude.{◌≡◌, ◌<◌, ◌++◌, ◌∷◌, [], IfOk, OnOk, length, map, slice_get};

use db_core::{Db, DirInfo, FileInfo, List, PackageView};
use path_clashes::FilePath;
use std::alloc::{AllocError, Global};
use std::marker::{Model, PhantomData};

/// The record of a file: its path, and the package's entry of the file.
#[derive(Drop)]
pub(crate) struct Record<'a> {
    /// The path of the file.
    pub(crate) path: FilePath<'a>,
    /// The package's entry of the file, which has the digest, link target and size of the file.
    pub(crate) file: FileInfo<'a>,
}

impl<'a> Model for Record<'a> {
    ghost use Rattle.std.specs.Prelude.{◌≡◌, true};
    ghost use Rattle.path_clashes.specs.adb_fields.JoinedPath.{joined_path};
    ghost use Rattle.adb_view.specs.Adb.{payload_of};
    ghost use Rattle.adb_view.specs.Values.{is_sound};
    ghost use Rattle.adb_view.specs.declared.tables.Kind.TheVariants as Kinds;
    ghost use Rattle.adb_view.specs.declared.tables.Which.TheVariants as Tables;
    ghost use Rattle.audit_core.specs.StoredRecords.{StoredRecord};

    ghost Value = { StoredRecord };

    // In contracts a record is its path, and the payload and the word of its entry.
    ghost view = { λ r. record {
      path = joined_path r.path;
      payload = payload_of r.file.adb;
      word = r.file.word;
    } };

    // The word of the entry has a plain value: the entry of a file.
    ghost invariant = { λ r. is_sound (payload_of r.file.adb) (Kinds.Obj Tables.File) r.file.word
        ≡ true };
}

/// The records of all files that the packages of a database list, in byte order of their paths. A
/// record takes a few machine words of memory.
///
/// # Errors
///
/// Out of memory.
#[tactic(auto, unfolding(crate::specs::Records::records_by_path))]
pub(crate) fn records_by_path<'a>(alloc: Global, db: &Db<'a>) -> Result<Vec<Record<'a>>, AllocError>
    // On Ok, the records are those of the definition.
    ensures { IfOk result (λ records. map record_seen records.items
        ≡ records_by_path (packages_of db.now)) }
{
    let mut records = database_records(alloc, db)?;
    sort_records(&mut records)?;
    Ok(records)
}

// Sorts records into byte order of their paths.
fn sort_records(records: &mut Vec<Record<'_>>) -> Result<(), AllocError>
    // On Ok, the records are sorted by their paths; records with equal paths keep their order.
    ensures { IfOk result (λ _. map record_seen records.new.items
        ≡ sorted_by record_path_cmp (map record_seen records.old.items)) }
{
    records.sort_by(|one, other| one.path.compare(&other.path))?;
    Ok(())
}

// The records of all files, in the order of packages, folders and files.
fn database_records<'a>(alloc: Global, db: &Db<'a>) -> Result<Vec<Record<'a>>, AllocError>
    // On Ok, the records are those of the definition.
    ensures { IfOk result (λ records. map record_seen records.items
        ≡ database_records (packages_of db.now)) }
{
    let mut records = Vec::new(alloc);
    for i in 0..db.len() {
        add_package(&mut records, db, i, PhantomData)?;
    }
    Ok(records)
}

// Adds the records of the package with the index `i`, counted from 0. `_mark` serves the borrow
// checker alone: it does not know the parts of a view that is made and lent here, unless the
// signature has the view's type.
fn add_package<'a>(
    records: &mut Vec<Record<'a>>,
    db: &Db<'a>,
    i: usize,
    _mark: PhantomData<PackageView<'a>>,
) -> Result<(), AllocError>
    // There is a package at this place.
    requires { i < length (packages_of db.now) }
    // On Ok, the records of the package at this place are appended.
    ensures { OnOk result (map record_seen records.new.items ≡ map record_seen records.old.items
        ++ option_map_or package_records (slice_get (packages_of db.now) i) []) }
{
    let package = db.package(i);
    add_folders(records, &package.paths())
}

// Adds the records of the files of a package's folders, in their order.
fn add_folders<'a>(
    records: &mut Vec<Record<'a>>,
    folders: &List<'a, DirInfo<'a>>,
) -> Result<(), AllocError>
    // On Ok, the records of the files of all these folders are appended.
    ensures { OnOk result (map record_seen records.new.items ≡ map record_seen records.old.items
        ++ flat_map folder_records (list_of (entries_in (list_value folders.now)))) }
{
    for i in 0..folders.len() {
        add_folder(records, folders, i)?;
    }
    Ok(())
}

// Adds the records of the files of the folder with the index `i`, counted from 0.
fn add_folder<'a>(
    records: &mut Vec<Record<'a>>,
    folders: &List<'a, DirInfo<'a>>,
    i: usize,
) -> Result<(), AllocError>
    // There is a folder at this place.
    requires { i < count_of (entries_in (list_value folders.now)) }
    // On Ok, the records of the files of this folder are appended.
    ensures { OnOk result (map record_seen records.new.items ≡ map record_seen records.old.items
        ++ folder_records (entry_at_index (list_value folders.now) i)) }
{
    // The precondition excludes this. The call of `len` tells the checker that a list has fewer
    // than 2^32 entries.
    if i >= folders.len() {
        unreachable!();
    }
    // `get` counts from 1.
    let folder = folders.get(i + 1);
    add_files(records, folder.name(), &folder.files())
}

// Adds the records of files in their order. `folder` is the name of their folder.
fn add_files<'a>(
    records: &mut Vec<Record<'a>>,
    folder: &'a [u8],
    files: &List<'a, FileInfo<'a>>,
) -> Result<(), AllocError>
    // On Ok, the records of these files are appended.
    ensures { OnOk result (map record_seen records.new.items ≡ map record_seen records.old.items
        ++ map (file_record folder.now) (list_of (entries_in (list_value files.now)))) }
{
    for i in 0..files.len() {
        add_file(records, folder, files, i)?;
    }
    Ok(())
}

// Adds the record of the file with the index `i`, counted from 0. `folder` is the name of its
// folder.
fn add_file<'a>(
    records: &mut Vec<Record<'a>>,
    folder: &'a [u8],
    files: &List<'a, FileInfo<'a>>,
    i: usize,
) -> Result<(), AllocError>
    // There is a file at this place.
    requires { i < count_of (entries_in (list_value files.now)) }
    // On Ok, the record of this file is appended.
    ensures { OnOk result (map record_seen records.new.items ≡ map record_seen records.old.items
        ++ file_record folder.entry.now (entry_at_index (list_value files.now) i) ∷ []) }
{
    // The precondition excludes this. The call of `len` tells the checker that a list has fewer
    // than 2^32 entries.
    if i >= files.len() {
        unreachable!();
    }
    // `get` counts from 1.
    let file = files.get(i + 1);
    let name = file.name();
    let path = FilePath { folder, name };
    records.push(Record { path, file })?;
    Ok(())
}
