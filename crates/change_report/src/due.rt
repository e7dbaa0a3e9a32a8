//! The packages whose triggers are due, by the folders of the files that a change writes and
//! removes. Such a trigger refuses the change, or has a line in its report. The rules are in
//! `docs/commands.md`, "`add` and `del`", part "Which triggers are due".

ghost use Rattle.change_outcome.specs.adb_schema.Views.{package_value};
ghost use Rattle.change_outcome.specs.Triggers.{line_saying_trigger_is_due, due_trigger_lines_for_folders, folders_of_paths, has_due_trigger, watches_folder, trigger_lines, unless_trigger_due};
ghost use Rattle.change_outcome.specs.db_core.Seen.{members_of};
ghost use Rattle.change_report.specs.Due.{refusal_if_trigger_due, planned_paths};
ghost use Rattle.report_core.specs.Reports.{folder_path_or_slash_for_root, report_line, trigger_due_for_folder_text};
ghost use Rattle.std.specs.Prelude.{◌≡◌, ◌<◌, ◌++◌, ℕ, List, [], false, if◌then◌else◌, length, map, IfSome, OnOk, IfOk};
ghost use Rattle.package_files.specs.Folders.{folder_of};
ghost use Rattle.own_core.specs.WritesSeen.{writes_in};

use crate::watched::{has_trigger_script, name_of, watches_folder};
use base_core::Names;
use change_outcome::{Members, PackageView, sorted_distinct_names};
use own_core::{FilePlan, Writes};
use package_files::folder_of;
use report_core::Report;
use std::alloc::{AllocError, Global};
use std::marker::PhantomData;

/// The place of the first package after a change whose trigger is due, counted from 0. `folders`
/// are those of the files that the change writes and removes. Of a package without a trigger script
/// only the scripts are read.
pub fn first_due(members: &Members<'_>, folders: &[&[u8]]) -> Option<usize>
    // If these are the folders of some paths, the definition refuses the member at this place;
    // without a place, it refuses nothing.
    ensures needed { (paths : List (List ℕ)) → map (λ f. f.now) folders.now ≡ folders_of_paths paths
        → unless_trigger_due false paths (members_of members.now)
        ≡ refusal_if_trigger_due (members_of members.now) result }
    // The place is one of the members.
    ensures within { IfSome result (λ i. i < length (members_of members.now)) }
{
    for i in 0..members.len() {
        if has_due_trigger(members.view(i), folders) {
            return Some(i);
        }
    }
    None
}

/// Adds a line for each member and each of these folders for which the trigger of the member is
/// due, member by member.
///
/// # Errors
///
/// Out of memory.
pub fn push_trigger_lines(
    report: &mut Report,
    members: &Members<'_>,
    folders: &[&[u8]],
) -> Result<(), AllocError>
    // If these are the folders of some paths, the lines of the definition are appended.
    ensures { OnOk result ((paths : List (List ℕ))
        → map (λ f. f.now) folders.now ≡ folders_of_paths paths
        → report.new ≡ report.old ++ trigger_lines paths (members_of members.now)) }
{
    for i in 0..members.len() {
        push_due_lines(report, members.view(i), folders)?;
    }
    Ok(())
}

/// Whether the trigger of a package is due for one of these folders.
fn has_due_trigger(pkg: &PackageView<'_>, folders: &[&[u8]]) -> bool
    ensures { result ≡ has_due_trigger (map (λ f. f.now) folders.now) (package_value pkg.now) }
{
    // Without a trigger script the package's patterns do not matter.
    if !has_trigger_script(pkg, PhantomData) {
        return false;
    }
    for folder in folders {
        if watches_folder(pkg, folder) {
            return true;
        }
    }
    false
}

/// Adds a line for each of these folders for which the trigger of the package is due.
fn push_due_lines(
    report: &mut Report,
    pkg: &PackageView<'_>,
    folders: &[&[u8]],
) -> Result<(), AllocError>
    ensures { OnOk result (report.new
        ≡ report.old ++ due_trigger_lines_for_folders (map (λ f. f.now) folders.now)
        (package_value pkg.now)) }
{
    if !has_trigger_script(pkg, PhantomData) {
        return Ok(());
    }
    for folder in folders {
        push_line_if_watched(report, pkg, folder)?;
    }
    Ok(())
}

/// Adds the line of a folder, if a package watches it.
fn push_line_if_watched(
    report: &mut Report,
    pkg: &PackageView<'_>,
    folder: &[u8],
) -> Result<(), AllocError>
    // One line is appended if the package watches the folder.
    ensures { OnOk result (report.new
        ≡ report.old ++ (if watches_folder (package_value pkg.now) folder.now
        then line_saying_trigger_is_due (package_value pkg.now) folder.now else [])) }
{
    if watches_folder(pkg, folder) {
        push_trigger_line(report, name_of(pkg, PhantomData), folder)?;
    }
    Ok(())
}

/// Adds the line `NAME: trigger due for FOLDER`.
fn push_trigger_line(report: &mut Report, name: &[u8], folder: &[u8]) -> Result<(), AllocError>
    ensures { OnOk result (report.new
        ≡ report.old ++ report_line (trigger_due_for_folder_text name.now folder.now)) }
{
    report.push(name)?;
    report.push(b": trigger due for ")?;
    report.push(folder_path_or_slash_for_root(folder))?;
    report.push(b"\n")?;
    Ok(())
}

/// A folder as it is printed: its path, or `/` for the root, whose name is empty.
fn folder_path_or_slash_for_root(folder: &[u8]) -> &[u8]
    ensures { result.now ≡ folder_path_or_slash_for_root folder.now }
{
    if folder.is_empty() { b"/" } else { folder }
}

/// The folders of the files that the plan writes and removes, in byte order, each once; the name of
/// the root is empty. The folder of a removed file counts even if the file does not exist.
///
/// # Errors
///
/// Out of memory.
pub fn touched_folders<'p>(alloc: Global, plan: &'p FilePlan) -> Result<Vec<&'p [u8]>, AllocError>
    ensures { IfOk result (λ folders. map (λ f. f.now) folders.items
        ≡ folders_of_paths (planned_paths plan.entry.now)) }
{
    let mut folders = Vec::new(alloc);
    push_written_folders(&mut folders, plan.writes())?;
    push_removed_folders(&mut folders, plan.removals())?;
    sorted_distinct_names(folders)
}

/// Appends the folder of each file that is written.
fn push_written_folders<'p>(
    folders: &mut Vec<&'p [u8]>,
    writes: &'p Writes,
) -> Result<(), AllocError>
    // The folder of each written file is appended.
    ensures { OnOk result (map (λ f. f.now) folders.new.items ≡ map (λ f. f.now) folders.old.items
        ++ map folder_of (map (λ w. w.name) (writes_in writes.entry.now))) }
{
    for i in 0..writes.len() {
        folders.push(folder_of(writes.get(i).name.as_bytes()))?;
    }
    Ok(())
}

/// Appends the folder of each file that is removed.
fn push_removed_folders<'p>(
    folders: &mut Vec<&'p [u8]>,
    removals: &'p Names,
) -> Result<(), AllocError>
    ensures { OnOk result (map (λ f. f.now) folders.new.items ≡ map (λ f. f.now) folders.old.items
        ++ map folder_of removals.entry.now) }
{
    for i in 0..removals.len() {
        folders.push(folder_of(removals.get(i).as_bytes()))?;
    }
    Ok(())
}
