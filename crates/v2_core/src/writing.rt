//! Writes the package of a record into a draft (a payload that is being written), as an installed
//! database has it (apk-v3(5)). `read.rt` calls `write_package` at the end of each record.
//! The rules are in `docs/formats.md`, "Text database of version 2"; the order of fields is in
//! "Schemas", tables 2 to 5 and 7.
ghost use Rattle.make_info.specs.adb_values.Drafts.{draft_with, draft_with_all};
ghost use Rattle.dep_core.specs.Meets.{dependency};
ghost use Rattle.make_info.specs.Fields.{need};
ghost use Rattle.make_info.specs.Information.{plain_value};
ghost use Rattle.make_info.specs.Values.{plains_of_list};
ghost use Rattle.std.specs.List.{find};
ghost use Rattle.std.specs.Option.{option_map};
ghost use Rattle.std.specs.Prelude.{◌≡◌, OnOk, Some, map};
ghost use Rattle.v2_core.specs.Columns.{value_of_column};
ghost use Rattle.v2_core.specs.Database.{listed_access_value, array_or_null_of_list, listed_file_value, value_of_first_or_null, listed_folder_value, listed_hash_value, record_info_value, array_of_field_values, value_of_single_line_field, record_value};
ghost use Rattle.v2_core.specs.Records.{is_line_of_field};
ghost use Rattle.v2_core.specs.Views.{access_view_if_any, hash_view, line_value_view};
ghost use Rattle.v2_core.specs.Accesses.{access_view};

use crate::access::Access;
use crate::field::InfoField;
use crate::record::{File, Folder, InfoLine, Record};
use crate::value::Value;
use dep_core::Dep;
use make_info::{Draft, write_need};
use std::alloc::AllocError;

/// Which lines of a record give a field of the package's information.
#[derive(Clone, Copy)]
enum Column {
    /// The line of this field, of which a record has at most one.
    Once(InfoField),
    /// All lines of this field, whose values are the entries of an array.
    List(InfoField),
    /// Nothing: no line gives the field.
    Null,
}

/// The fields of a package's information in the order of table 3, up to the last that a line gives,
/// which is the 18th. The 13th is the file's size, which the text does not have.
const COLUMNS: [Column; 18] = [
    Column::Once(InfoField::Name),
    Column::Once(InfoField::Version),
    Column::Once(InfoField::Hashes),
    Column::Once(InfoField::Description),
    Column::Once(InfoField::Arch),
    Column::Once(InfoField::License),
    // The 7th field of table 3, and so on.
    Column::Once(InfoField::Origin),
    Column::Once(InfoField::Maintainer),
    Column::Once(InfoField::Url),
    Column::Once(InfoField::RepoCommit),
    Column::Once(InfoField::BuildTime),
    Column::Once(InfoField::InstalledSize),
    // The 13th field, the size of the package's file.
    Column::Null,
    Column::Once(InfoField::ProviderPriority),
    // Four lists of dependencies, the 15th to the 18th field.
    Column::List(InfoField::Depends),
    Column::List(InfoField::Provides),
    Column::List(InfoField::Replaces),
    Column::List(InfoField::InstallIf),
];

/// Writes the package of a record: information, folders, no scripts, no triggers, and the priority
/// in replacing, in the order of table 7.
pub(crate) fn write_package(draft: &mut Draft, text_record: &Record<'_>) -> Result<(), AllocError>
    ensures { OnOk result (draft.new ≡ draft_with (record_value text_record.now) draft.old) }
{
    draft.open_list()?;
    write_info(draft, &text_record.info)?;
    write_folders(draft, &text_record.folders)?;
    // The text has no scripts and no triggers.
    draft.null()?;
    draft.null()?;
    write_once(draft, &text_record.info, InfoField::ReplacesPriority)?;
    draft.close_object()
}

// ---- the package's information

// Writes the information of the package: the fields that `COLUMNS` lists, in their order.
#[tactic(auto, unfolding(crate::specs::Database::record_info_value))]
fn write_info(draft: &mut Draft, info: &[InfoLine<'_>]) -> Result<(), AllocError>
    ensures { OnOk result (draft.new ≡ draft_with (record_info_value info.now) draft.old) }
{
    draft.open_list()?;
    write_columns(draft, info, &COLUMNS)?;
    draft.close_object()
}

// Writes the fields that these columns describe, one after the other, by the lines `info` of a
// record.
fn write_columns(
    draft: &mut Draft,
    info: &[InfoLine<'_>],
    columns: &[Column],
) -> Result<(), AllocError>
    // On Ok, the values of these columns are added to the draft, in their order.
    ensures { OnOk result (draft.new
        ≡ draft_with_all (plains_of_list (map (value_of_column info.now) columns.now))
        draft.old) }
{
    for column in columns {
        write_column(draft, info, *column)?;
    }
    Ok(())
}

// Writes one field of the information, by the lines `info` of a record.
fn write_column(draft: &mut Draft, info: &[InfoLine<'_>], column: Column) -> Result<(), AllocError>
    ensures { OnOk result (draft.new ≡ draft_with (value_of_column info.now column) draft.old) }
{
    match column {
        Column::Once(field) => write_once(draft, info, field),
        Column::List(field) => write_list(draft, info, field),
        Column::Null => draft.null(),
    }
}

// Writes the value of the line of a field, or NULL if there is no such line.
fn write_once(draft: &mut Draft, info: &[InfoLine<'_>], field: InfoField) -> Result<(), AllocError>
    // On Ok, the value of the field is added to the draft.
    ensures { OnOk result (draft.new
        ≡ draft_with (value_of_single_line_field field info.now) draft.old) }
{
    match find_line(info, field) {
        Some(line) => write_first(draft, &line.value),
        None => draft.null(),
    }
}

// The line of a field of which a record has at most one line, if there is such a line.
fn find_line<'a, 'b>(info: &'a [InfoLine<'b>], field: InfoField) -> Option<&'a InfoLine<'b>>
    ensures { option_map (λ line. line.now) result ≡ find (is_line_of_field field) info.entry.now }
{
    info.iter().find(|line| line.field == field)
}

// Writes the value of a line as a single value: the first one that the line gives, or NULL.
fn write_first(draft: &mut Draft, value: &Value<'_>) -> Result<(), AllocError>
    // On Ok, the first value of the line, or Null, is added to the draft.
    ensures { OnOk result
        (draft.new ≡ draft_with (value_of_first_or_null (line_value_view value.now)) draft.old) }
{
    match value {
        Value::Text(text) => draft.blob(text),
        Value::Bytes(bytes) => draft.blob(bytes),
        Value::Number(n) => draft.int(*n),
        Value::Needs(needs) => match needs.first() {
            Some(need) => write_need(draft, need),
            None => draft.null(),
        },
        Value::Nothing => draft.null(),
    }
}

// Writes the values of all lines of a field, as an array.
fn write_list(draft: &mut Draft, info: &[InfoLine<'_>], field: InfoField) -> Result<(), AllocError>
    // On Ok, the array of all values of the field is added to the draft.
    ensures { OnOk result (draft.new
        ≡ draft_with (array_of_field_values field info.now) draft.old) }
{
    draft.open_list()?;
    for line in info {
        if line.field == field {
            write_values(draft, &line.value)?;
        }
    }
    draft.close_array()
}

// Writes all values of a line, one after the other.
fn write_values(draft: &mut Draft, value: &Value<'_>) -> Result<(), AllocError>
    // On Ok, all values of the line are added to the draft, in their order.
    ensures { OnOk result (draft.new
        ≡ draft_with_all (plains_of_list (map plain_value (line_value_view value.now)))
        draft.old) }
{
    match value {
        Value::Needs(needs) => write_needs(draft, needs),
        Value::Nothing => Ok(()),
        _ => write_first(draft, value),
    }
}

// Writes dependencies, one after the other.
fn write_needs(draft: &mut Draft, needs: &[Dep<'_>]) -> Result<(), AllocError>
    // On Ok, all these dependencies are added to the draft, in their order.
    ensures { OnOk result (draft.new
        ≡ draft_with_all (plains_of_list (map (λ d. plain_value (need (dependency d))) needs.now))
        draft.old) }
{
    for need in needs {
        write_need(draft, need)?;
    }
    Ok(())
}

// ---- folders and files

// Writes the folders of the package.
fn write_folders(draft: &mut Draft, folders: &[Folder<'_>]) -> Result<(), AllocError>
    // On Ok, the array of the folders is added to the draft.
    ensures { OnOk result
        (draft.new ≡ draft_with (array_or_null_of_list
        (map listed_folder_value folders.now)) draft.old) }
{
    draft.open_list()?;
    for folder in folders {
        write_folder(draft, folder)?;
    }
    draft.close_array()
}

// Writes a folder, in the order of table 5: its name, its access and its files.
fn write_folder(draft: &mut Draft, folder: &Folder<'_>) -> Result<(), AllocError>
    ensures { OnOk result (draft.new ≡ draft_with (listed_folder_value folder.now) draft.old) }
{
    draft.open_list()?;
    draft.blob(folder.name)?;
    write_access(draft, &folder.access)?;
    write_files(draft, &folder.files)?;
    draft.close_object()
}

// Writes the files of a folder.
fn write_files(draft: &mut Draft, files: &[File<'_>]) -> Result<(), AllocError>
    // On Ok, the array of the files is added to the draft.
    ensures { OnOk result
        (draft.new ≡ draft_with (array_or_null_of_list
        (map listed_file_value files.now)) draft.old) }
{
    draft.open_list()?;
    for file in files {
        write_file(draft, file)?;
    }
    draft.close_array()
}

// Writes a file, in the order of table 4. Size and mtime are NULL, since the text does not have
// them.
fn write_file(draft: &mut Draft, file: &File<'_>) -> Result<(), AllocError>
    ensures { OnOk result (draft.new ≡ draft_with (listed_file_value file.now) draft.old) }
{
    draft.open_list()?;
    draft.blob(file.name)?;
    write_access(draft, &file.access)?;
    // The size and the mtime.
    draft.null()?;
    draft.null()?;
    write_hash(draft, &file.hash)?;
    draft.close_object()
}

// Writes an owner and mode, or NULL if no line gives them.
fn write_access(draft: &mut Draft, access: &Option<Access<'_>>) -> Result<(), AllocError>
    // On Ok, the object of the owner and mode, or Null, is added to the draft.
    ensures { OnOk result
        (draft.new ≡ draft_with (listed_access_value (access_view_if_any access.now)) draft.old) }
{
    let Some(access) = access else {
        return draft.null();
    };
    write_known_access(draft, access)
}

// Writes an owner and mode that a line gives, in the order of table 2: mode, user and group.
fn write_known_access(draft: &mut Draft, access: &Access<'_>) -> Result<(), AllocError>
    // On Ok, the object of the owner and mode is added to the draft.
    ensures { OnOk result (draft.new
        ≡ draft_with (listed_access_value (Some (access_view access.now))) draft.old) }
{
    draft.open_list()?;
    draft.int(access.mode)?;
    draft.blob(access.user)?;
    draft.blob(access.group)?;
    draft.close_object()
}

// Writes a hash, or NULL if no line gives it.
fn write_hash(draft: &mut Draft, hash: &Option<Vec<u8>>) -> Result<(), AllocError>
    // On Ok, the blob of the hash, or Null, is added to the draft.
    ensures { OnOk result
        (draft.new ≡ draft_with (listed_hash_value (hash_view hash.now)) draft.old) }
{
    match hash {
        Some(hash) => draft.blob(hash),
        None => draft.null(),
    }
}
