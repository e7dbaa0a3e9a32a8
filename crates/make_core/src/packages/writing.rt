//! Writes the value of a package (apk-v3(5)): its information, its folders with their files, its
//! scripts and triggers.
//! The rules are in `docs/commands.md`, "`mkpkg`" (modes, users, which fields are left out), and
//! in `docs/formats.md`, "Schemas", tables 2, 4, 5, 6 and 7: the fields in their order.
ghost use Rattle.command_core.specs.declared.values.TheConstants.{TRIGGER};
ghost use Rattle.package_files.specs.adb_values.Drafts.{draft_with};
ghost use Rattle.adb_view.specs.Plain.{array_or_null, blob_or_null};
ghost use Rattle.package_files.specs.make_info.Information.{information_value_with_installed_size, replaces_priority};
ghost use Rattle.package_files.specs.make_info.Values.{plains_of_list};
ghost use Rattle.package_files.specs.Package.{access_value, script_bytes_of_field, value_of_scripts, package_with};
ghost use Rattle.package_files.specs.Packed.{packed_file, packed_folder};
ghost use Rattle.make_core.specs.Scripts.{scripts_view};
ghost use Rattle.package_files.specs.Sources.{values_of_letter, texts_of};
ghost use Rattle.std.specs.Prelude.{map, OnOk, ◌≡◌};

use command_core::{TRIGGER, Values};
use package_files::{Draft, File, Folder, Information, write_number, write_size};
use std::alloc::AllocError;

/// The mode of every folder (`docs/commands.md`, "`mkpkg`", part "Files"): all may read and enter,
/// and root may write.
const FOLDER_MODE: u64 = 0o755;

/// The mode of every file (`docs/commands.md`, "`mkpkg`", part "Files"): all may read, and root may
/// write.
const FILE_MODE: u64 = 0o644;

/// Writes the value of a package with this information (`about`), these folders and scripts, the
/// triggers in the values of the options (`values`), and the installed size `size`.
pub(crate) fn write_package(
    draft: &mut Draft,
    values: &Values,
    about: &Information<'_>,
    folders: &[Folder<'_>],
    scripts: &[Script<'_>],
    size: u64,
) -> Result<(), AllocError>
    // On Ok, the draft has one value more: the package with these parts.
    ensures { OnOk result (draft.new ≡ draft_with
        (package_with (information_value_with_installed_size about.now size)
        (map packed_folder folders.now)
        (scripts_view scripts.now) (texts_of (values_of_letter TRIGGER values.now))
        (replaces_priority about.now)) draft.old) }
{
    draft.open_list()?;
    about.write(draft, size)?;
    write_paths(draft, folders)?;
    write_scripts(draft, scripts)?;
    write_triggers(draft, values)?;
    write_number(draft, about.replaces_priority())?;
    draft.close_object()
}

/// Writes the folders of a package, each with its files.
fn write_paths(draft: &mut Draft, folders: &[Folder<'_>]) -> Result<(), AllocError>
    // On Ok, the draft has one value more: the array of these entries, or Null if there are none.
    ensures { OnOk result (draft.new
        ≡ draft_with (array_or_null (plains_of_list (map packed_folder folders.now))) draft.old) }
{
    draft.open_list()?;
    for folder in folders {
        write_folder(draft, folder)?;
    }
    draft.close_array()
}

/// Writes the entry of a folder: its name, its access list and its files.
fn write_folder(draft: &mut Draft, folder: &Folder<'_>) -> Result<(), AllocError>
    // On Ok, the draft has one value more: the entry of the folder.
    ensures { OnOk result (draft.new ≡ draft_with (packed_folder folder.now) draft.old) }
{
    draft.open_list()?;
    draft.blob(folder.name)?;
    write_acl(draft, FOLDER_MODE)?;
    write_files(draft, &folder.files)?;
    draft.close_object()
}

/// Writes the files of a folder.
fn write_files(draft: &mut Draft, files: &[File<'_>]) -> Result<(), AllocError>
    // On Ok, the draft has one value more: the array of these entries, or Null if there are none.
    ensures { OnOk result (draft.new
        ≡ draft_with (array_or_null (plains_of_list (map packed_file files.now))) draft.old) }
{
    draft.open_list()?;
    for file in files {
        write_file(draft, file)?;
    }
    draft.close_array()
}

/// Writes the entry of a file: its name, access list, size, time, hash and target.
fn write_file(draft: &mut Draft, file: &File<'_>) -> Result<(), AllocError>
    // On Ok, the draft has one value more: the entry of the file.
    ensures { OnOk result (draft.new ≡ draft_with (packed_file file.now) draft.old) }
{
    draft.open_list()?;
    draft.blob(file.name)?;
    write_acl(draft, FILE_MODE)?;
    write_size(draft, file.kind.size())?;
    // The time of the file, which is left out.
    draft.null()?;
    draft.blob(file.kind.hash())?;
    draft.blob(file.kind.target())?;
    draft.close_object()
}

/// Writes an access list: this mode, and `root` as user and as group.
fn write_acl(draft: &mut Draft, mode: u64) -> Result<(), AllocError>
    // On Ok, the draft has one value more: the access list.
    ensures { OnOk result (draft.new ≡ draft_with (access_value mode) draft.old) }
{
    draft.open_list()?;
    draft.int(mode)?;
    draft.blob(b"root")?;
    draft.blob(b"root")?;
    draft.close_object()
}

/// A script of a package.
#[derive(Drop)]
pub(crate) struct Script<'a> {
    /// The type of the script, which is the name of its field.
    pub(crate) kind: &'a [u8],
    /// The bytes of the script's file.
    pub(crate) bytes: Vec<u8>,
}

/// Writes the scripts: a field for each type, in the order of table 6. A type without script is
/// NULL.
fn write_scripts(draft: &mut Draft, scripts: &[Script<'_>]) -> Result<(), AllocError>
    // On Ok, the draft has one value more: the object of the scripts, or Null if there are none.
    ensures { OnOk result
        (draft.new ≡ draft_with (value_of_scripts (scripts_view scripts.now)) draft.old) }
{
    draft.open_list()?;
    draft.blob(script_of(scripts, b"trigger"))?;
    draft.blob(script_of(scripts, b"pre-install"))?;
    draft.blob(script_of(scripts, b"post-install"))?;
    draft.blob(script_of(scripts, b"pre-deinstall"))?;
    draft.blob(script_of(scripts, b"post-deinstall"))?;
    draft.blob(script_of(scripts, b"pre-upgrade"))?;
    draft.blob(script_of(scripts, b"post-upgrade"))?;
    draft.close_object()
}

/// The bytes of the first script of this type; empty if there is no script of the type.
fn script_of<'a>(scripts: &'a [Script<'_>], kind: &[u8]) -> &'a [u8]
    ensures { result.now ≡ script_bytes_of_field (scripts_view scripts.now) kind.now }
{
    for script in scripts {
        if script.kind == kind {
            return &script.bytes;
        }
    }
    &[]
}

/// Writes the triggers: the values of `-t`, in the order given.
fn write_triggers(draft: &mut Draft, values: &Values) -> Result<(), AllocError>
    // On Ok, the draft has one value more: the array of the texts of `-t`, or Null without `-t`.
    ensures { OnOk result (draft.new ≡ draft_with (array_or_null (plains_of_list (map blob_or_null
        (texts_of (values_of_letter TRIGGER values.now))))) draft.old) }
{
    draft.open_list()?;
    for i in 0..values.len() {
        let value = values.get(i);
        // The values of all options are in one list.
        if value.letter == TRIGGER {
            draft.blob(value.text.as_bytes())?;
        }
    }
    draft.close_array()
}
