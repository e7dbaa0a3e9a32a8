//! The target of a link that a package contains, used by `writes.rt`. The rule is in
//! `docs/formats.md`, "Tests of a container", "The texts", field 406: a target begins with the
//! bytes `00 a0`, which mark a link.
ghost use Rattle.journal_staging.specs.adb_fields.ListValue.{list_value};
ghost use Rattle.journal_staging.specs.adb_schema.Views.{package_value};
ghost use Rattle.adb_view.specs.FieldIndexes.{PACKAGE_PATHS_INDEX};
ghost use Rattle.adb_view.specs.Values.{count_of, entries_in, entry_at_index};
ghost use Rattle.change_report.specs.db_core.Seen.{members_of};
ghost use Rattle.engine_core.specs.Writing.{entry_of_write};
ghost use Rattle.journal_staging.specs.file_guard.AsListed.{file_target};
ghost use Rattle.change_report.specs.own_core.ClaimEntries.{HasFileAt, listed_file_at};
ghost use Rattle.change_report.specs.own_core.Planned.{IsOfAddedFile};
ghost use Rattle.change_report.specs.own_core.WritesSeen.{write_seen};
ghost use Rattle.std.specs.Prelude.{◌≡◌, ◌<◌, ◌≤◌, ◌-◌};

use change_report::{Members, Write};
use journal_staging::{DirInfo, FileInfo, List, PackageView};

/// The link target of the file that a planned write writes, without the two bytes that mark a link.
/// It is empty if the file is no link.
pub(crate) fn target_of<'c>(members: &Members<'c>, write: &Write) -> &'c [u8]
    // The write is of a file of an added package.
    requires { IsOfAddedFile (members_of members.now) (write_seen write.now) }
    ensures { result.now ≡ file_target (entry_of_write (members_of members.now)
        (write_seen write.now)) }
{
    target_in(members.view(write.member as usize), write.path, write.file)
}

/// The link target of a package's file. `folder` is the position of the file's folder in the
/// package, `file` that of the file in this folder, both counted from 1.
fn target_in<'c>(pkg: &PackageView<'c>, folder: u32, file: u32) -> &'c [u8]
    // The package has a file at these positions.
    requires { HasFileAt (entry_at_index (package_value pkg.now) PACKAGE_PATHS_INDEX) folder file }
    ensures { result.now ≡ file_target
        (listed_file_at (entry_at_index (package_value pkg.now) PACKAGE_PATHS_INDEX) folder file) }
{
    target_in_folders(&pkg.paths(), folder, file)
}

/// The link target of the file at position `file` of the folder at position `folder`, among these
/// folders of a package. Both positions count from 1.
fn target_in_folders<'c>(folders: &List<'c, DirInfo<'c>>, folder: u32, file: u32) -> &'c [u8]
    // The folders have a file at these positions.
    requires { HasFileAt (list_value folders.now) folder file }
    ensures { result.now ≡ file_target (listed_file_at (list_value folders.now) folder file) }
{
    let folder = folders.get(folder as usize);
    target_in_files(&folder.files(), file)
}

/// The link target of the file at position `file`, counted from 1, among the files of one folder.
fn target_in_files<'c>(files: &List<'c, FileInfo<'c>>, file: u32) -> &'c [u8]
    // The position is at least 1, and at most the number of files.
    requires low { 0 < file }
    requires high { file ≤ count_of (entries_in (list_value files.now)) }
    ensures { result.now ≡ file_target (entry_at_index (list_value files.now) (file - 1)) }
{
    let file = files.get(file as usize);
    file.target()
}
