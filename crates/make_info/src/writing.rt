//! Writes the information of a package as an object of table 3 (`docs/formats.md`, "Schemas"),
//! field by field.
//! A dependency is an object of table 1; its match number is defined in "Dependencies".
ghost use Rattle.adb_values.specs.Drafts.{draft_with, draft_with_all};
ghost use Rattle.adb_view.specs.Plain.{blob_or_null};
ghost use Rattle.dep_core.specs.Meets.{dependency};
ghost use Rattle.dep_core.specs.Value.{dep_value, match_number_of};
ghost use Rattle.make_info.specs.Columns.{column_value, column_values_by_installed_size};
ghost use Rattle.make_info.specs.Information.{information_value_with_installed_size, value_of_list_field, dependency_object, number_in, replaces_priority, plain_value, value_of_single_field};
ghost use Rattle.make_info.specs.Values.{number_or_null, size_or_null_if_zero};
ghost use Rattle.make_info.specs.Views.{value_view};
ghost use Rattle.std.specs.Prelude.{◌≡◌, OnOk};

use crate::field::Field;
use crate::information::{Information, Items, Value};
use adb_values::Draft;
use dep_core::Dep;
use std::alloc::AllocError;

/// The source of a field of the package's information (apk-v3(5)).
#[derive(Clone, Copy)]
enum Column {
    /// The value of this field of `-I`, which is given once.
    Single(Field),
    /// All values of this field of `-I`, which may be given several times.
    List(Field),
    /// The size of the package's files.
    InstalledSize,
    /// No value: `mkpkg` leaves out the field.
    Null,
}

/// The 22 fields of a package's information in the order of table 3; `mkpkg` leaves out hashes (3),
/// the file's size (13), layer (20) and the unused one (22).
const COLUMNS: [Column; 22] = [
    Column::Single(Field::Name),
    Column::Single(Field::Version),
    Column::Null,
    Column::Single(Field::Description),
    Column::Single(Field::Arch),
    Column::Single(Field::License),
    Column::Single(Field::Origin),
    Column::Single(Field::Maintainer),
    Column::Single(Field::Url),
    Column::Single(Field::RepoCommit),
    Column::Single(Field::BuildTime),
    Column::InstalledSize,
    Column::Null,
    Column::Single(Field::ProviderPriority),
    Column::List(Field::Depends),
    Column::List(Field::Provides),
    Column::List(Field::Replaces),
    Column::List(Field::InstallIf),
    Column::List(Field::Recommends),
    Column::Null,
    Column::List(Field::Tags),
    Column::Null,
];

impl Information<'_> {
    /// Writes the information, with the size of the package's files (`installed_size`): 22 fields
    /// in order.
    #[tactic(auto, unfolding(crate::specs::Information::information_value_with_installed_size))]
    pub fn write(&self, draft: &mut Draft, installed_size: u64) -> Result<(), AllocError>
        // On Ok, the draft has one value more: the information of the package, as an object of
        // table 3.
        ensures { OnOk result
            (draft.new ≡ draft_with
            (information_value_with_installed_size self.now installed_size) draft.old) }
    {
        draft.open_list()?;
        self.entries.write_columns(draft, &COLUMNS, installed_size)?;
        draft.close_object()
    }

    /// The priority in replacing, which is a field of the package itself.
    pub fn replaces_priority(&self) -> Option<u64>
        ensures { result ≡ replaces_priority self.now }
    {
        self.entries.find(Field::ReplacesPriority)?.value.number()
    }
}

impl Items<'_> {
    // Writes the fields of the table, one after the other.
    fn write_columns(
        &self,
        draft: &mut Draft,
        columns: &[Column],
        installed_size: u64,
    ) -> Result<(), AllocError>
        // On Ok, the draft has one value more for each of the fields, in order.
        ensures { OnOk result (draft.new
            ≡ draft_with_all (column_values_by_installed_size self.now installed_size columns.now) draft.old) }
    {
        for column in columns {
            self.write_column(draft, *column, installed_size)?;
        }
        Ok(())
    }

    // Writes one field of the table, from its source (`column`).
    fn write_column(
        &self,
        draft: &mut Draft,
        column: Column,
        installed_size: u64,
    ) -> Result<(), AllocError>
        ensures { OnOk result
            (draft.new ≡ draft_with (column_value self.now installed_size column) draft.old) }
    {
        match column {
            Column::Single(field) => self.write_single(draft, field),
            Column::List(field) => self.write_list(draft, field),
            Column::InstalledSize => write_size(draft, installed_size),
            Column::Null => draft.null(),
        }
    }

    // Writes the value of a field that is given once.
    fn write_single(&self, draft: &mut Draft, field: Field) -> Result<(), AllocError>
        ensures { OnOk result (draft.new
            ≡ draft_with (value_of_single_field field self.now) draft.old) }
    {
        match self.find(field) {
            Some(entry) => entry.value.write(draft),
            None => draft.null(),
        }
    }

    // Writes all values of a field.
    fn write_list(&self, draft: &mut Draft, field: Field) -> Result<(), AllocError>
        ensures { OnOk result (draft.new
            ≡ draft_with (value_of_list_field field self.now) draft.old) }
    {
        draft.open_list()?;
        for entry in &self.entries {
            if entry.field == field {
                entry.value.write(draft)?;
            }
        }
        draft.close_array()
    }
}

impl Value<'_> {
    // The number that the value is; None if the value is no number.
    fn number(&self) -> Option<u64>
        ensures { result ≡ number_in (value_view self.now) }
    {
        match self {
            Value::Number(n) => Some(*n),
            _ => None,
        }
    }

    // Writes the value in the form that it has in a container.
    fn write(&self, draft: &mut Draft) -> Result<(), AllocError>
        ensures { OnOk result
            (draft.new ≡ draft_with (plain_value (value_view self.now)) draft.old) }
    {
        match self {
            Value::Text(text) => draft.blob(text),
            Value::Bytes(bytes) => draft.blob(bytes),
            Value::Number(n) => draft.int(*n),
            Value::Need(dep) => write_need(draft, dep),
        }
    }
}

/// Writes a size; 0 is written as NULL.
pub fn write_size(draft: &mut Draft, size: u64) -> Result<(), AllocError>
    ensures { OnOk result (draft.new ≡ draft_with (size_or_null_if_zero size) draft.old) }
{
    if size == 0 {
        return draft.null();
    }
    draft.int(size)
}

/// Writes a dependency: its name, version and match number (apk-v3(5)).
pub fn write_need(draft: &mut Draft, dep: &Dep<'_>) -> Result<(), AllocError>
    ensures { OnOk result
        (draft.new ≡ draft_with (dependency_object (dep_value (dependency dep.now))) draft.old) }
{
    draft.open_list()?;
    draft.blob(dep.name)?;
    write_version(draft, dep)?;
    write_number(draft, match_number_of(dep))?;
    draft.close_object()
}

// Writes the version that a dependency names, or NULL.
fn write_version(draft: &mut Draft, dep: &Dep<'_>) -> Result<(), AllocError>
    ensures { OnOk result (draft.new
        ≡ draft_with (blob_or_null (dep_value (dependency dep.now)).version) draft.old) }
{
    match &dep.version {
        Some(version) => draft.blob(version.text()),
        None => draft.null(),
    }
}

/// Writes an optional number; None is written as NULL.
pub fn write_number(draft: &mut Draft, number: Option<u64>) -> Result<(), AllocError>
    ensures { OnOk result (draft.new ≡ draft_with (number_or_null number) draft.old) }
{
    match number {
        Some(n) => draft.int(n),
        None => draft.null(),
    }
}

// The match number of a dependency: its operator's, plus 16 for a conflict, and 23 (7 and 16) for a
// conflict without version. None for a dependency that is no conflict, and that allows any version
// or only the named one (`=`, which is 1).
fn match_number_of(dep: &Dep<'_>) -> Option<u64>
    ensures { result ≡ (dep_value (dependency dep.now)).matching }
{
    let bits = dep.op.bits() as u64;
    if dep.version.is_none() {
        return if dep.conflict { Some(23) } else { None };
    }
    if dep.conflict {
        return Some(16 + bits);
    }
    if bits == 1 { None } else { Some(bits) }
}
