//! The paths that a package lists, a line each. The rule is in `docs/commands.md`, "`info`", the
//! row of `info -L`; the order of the paths is that of `docs/formats.md`, "The database after a
//! change".
ghost use Rattle.candidate_core.specs.adb_fields.ListValue.{list_value};
ghost use Rattle.candidate_core.specs.adb_fields.Paths.{path_of};
ghost use Rattle.candidate_core.specs.adb_fields.Repeated.{list_of, name_of, paths_of_folder_files};
ghost use Rattle.adb_view.specs.Values.{count_of, entries_in, entry_at_index};
ghost use Rattle.report_core.specs.Reports.{report_line, report_lines};
ghost use Rattle.std.specs.List.{flat_map};
ghost use Rattle.std.specs.Prelude.{◌≡◌, ◌<◌, ◌++◌, map, OnOk};

use crate::info::package::push_line;
use candidate_core::{DirInfo, FileInfo, List};
use std::alloc::AllocError;

/// Appends a line for each file of a package's folders, with the path of the file, in their order.
pub(crate) fn push_paths<'a>(
    report: &mut Vec<u8>,
    folders: &List<'a, DirInfo<'a>>,
) -> Result<(), AllocError>
    // A line for each file of these folders is appended.
    ensures { OnOk result (report.new.items ≡ report.old.items
        ++ report_lines (flat_map paths_of_folder_files (list_of (entries_in
        (list_value folders.now))))) }
{
    for i in 0..folders.len() {
        push_folder(report, folders, i)?;
    }
    Ok(())
}

// Appends the paths of the files in the folder at a place, counted from 0.
fn push_folder<'a>(
    report: &mut Vec<u8>,
    folders: &List<'a, DirInfo<'a>>,
    i: usize,
) -> Result<(), AllocError>
    requires { i < count_of (entries_in (list_value folders.now)) }
    ensures { OnOk result (report.new.items ≡ report.old.items
        ++ report_lines (paths_of_folder_files (entry_at_index (list_value folders.now) i))) }
{
    // There is a folder at the place, by the contract.
    if i >= folders.len() {
        unreachable!();
    }
    let folder = folders.get(i + 1);
    push_files(report, folder.name(), &folder.files())
}

// Appends the paths of the files of a folder, which has this path.
fn push_files<'a>(
    report: &mut Vec<u8>,
    folder: &[u8],
    files: &List<'a, FileInfo<'a>>,
) -> Result<(), AllocError>
    // A line for each of these files of the folder is appended.
    ensures { OnOk result (report.new.items ≡ report.old.items ++ report_lines
        (map (λ file. path_of folder.now (name_of file))
        (list_of (entries_in (list_value files.now))))) }
{
    for i in 0..files.len() {
        push_path(report, folder, files.get(i + 1).name())?;
    }
    Ok(())
}

// Appends the path of a file in a folder. The root folder has the empty path, and no `/` follows
// it.
fn push_path(report: &mut Vec<u8>, folder: &[u8], name: &[u8]) -> Result<(), AllocError>
    ensures { OnOk result (report.new.items
        ≡ report.old.items ++ report_line (path_of folder.now name.now)) }
{
    if !folder.is_empty() {
        report.extend_from_slice(folder)?;
        report.push(b'/')?;
    }
    push_line(report, name)
}
