//! The report of `info` on one package, and the lines of its dependencies. The rules are in
//! `docs/commands.md`, "`info`", the table of what each form prints.

ghost use Rattle.candidate_core.specs.adb_fields.Repeated.{package_name};
ghost use Rattle.candidate_core.specs.adb_schema.Views.{package_value, dependency_value};
ghost use Rattle.file_owners.specs.db_core.Seen.{packages_of};
ghost use Rattle.file_owners.specs.Replaces.{package_version_text};
ghost use Rattle.tell_core.specs.Info.{contents_section_of, depends_section_of, description_section_of, owner_line, package_info_for_operand_text};
ghost use Rattle.report_core.specs.Reports.{name_dash_version, report_line, report_lines};
ghost use Rattle.std.specs.Option.{option_map_or, option_map};
ghost use Rattle.std.specs.Prelude.{◌≡◌, ◌<◌, ◌++◌, [], length, slice_get, OnOk, map};
ghost use Rattle.candidate_core.specs.adb_fields.ListValue.{list_value};
ghost use Rattle.dep_core.specs.DependencyText.{dep_text};
ghost use Rattle.dep_core.specs.Meets.{dependency};
ghost use Rattle.candidate_core.specs.Candidates.{dependencies_in_list_value, dependency_in};

use crate::info::paths::push_paths;
use crate::info::reporting::Form;
use candidate_core::{DepView, List, PackageView};
use dep_core::{Dep, dep_of, dep_text, without_leading_slash};
use file_owners::Db;
use std::alloc::{AllocError, Global};
use std::marker::PhantomData;

/// Appends the report of a form on the package at a place, counted from 0. `text` is the operand
/// that means the package. The argument `_mark` serves only the borrow checker: it does not know
/// the parts of a view that is made and lent here unless the signature names the view as an
/// argument.
pub(crate) fn push_package<'a>(
    alloc: Global,
    report: &mut Vec<u8>,
    form: Form,
    db: &Db<'a>,
    place: usize,
    text: &[u8],
    _mark: PhantomData<PackageView<'a>>,
) -> Result<(), AllocError>
    requires { place < length (packages_of db.now) }
    // The report on the package at this place is appended.
    ensures { OnOk result (report.new.items ≡ report.old.items
        ++ option_map_or (package_info_for_operand_text form text.now) (slice_get
        (packages_of db.now) place) []) }
{
    let pkg = db.package(place);
    push_info(alloc, report, form, &pkg, text)
}

// Appends what `info` prints of a package in this form. `text` is the operand that means the
// package.
fn push_info(
    alloc: Global,
    report: &mut Vec<u8>,
    form: Form,
    pkg: &PackageView<'_>,
    text: &[u8],
) -> Result<(), AllocError>
    ensures { OnOk result (report.new.items
        ≡ report.old.items ++ package_info_for_operand_text form text.now (package_value pkg.now)) }
{
    match form {
        Form::Description => push_description(report, pkg),
        Form::Contents => push_contents(report, pkg),
        Form::Depends => push_depends(alloc, report, pkg),
        Form::Installed => push_line(report, text),
        Form::Owner => push_owner(report, without_leading_slash(text), pkg),
    }
}

// Appends the section with the description of a package.
fn push_description(report: &mut Vec<u8>, pkg: &PackageView<'_>) -> Result<(), AllocError>
    ensures { OnOk result (report.new.items
        ≡ report.old.items ++ description_section_of (package_value pkg.now)) }
{
    push_heading(report, pkg, b" description:")?;
    push_line(report, pkg.info().description())?;
    report.push(b'\n')?;
    Ok(())
}

// Appends the section with the paths that a package lists.
fn push_contents(report: &mut Vec<u8>, pkg: &PackageView<'_>) -> Result<(), AllocError>
    ensures { OnOk result (report.new.items
        ≡ report.old.items ++ contents_section_of (package_value pkg.now)) }
{
    push_heading(report, pkg, b" contains:")?;
    push_paths(report, &pkg.paths())?;
    report.push(b'\n')?;
    Ok(())
}

// Appends the section with the dependencies of a package.
fn push_depends(
    alloc: Global,
    report: &mut Vec<u8>,
    pkg: &PackageView<'_>,
) -> Result<(), AllocError>
    ensures { OnOk result (report.new.items
        ≡ report.old.items ++ depends_section_of (package_value pkg.now)) }
{
    push_heading(report, pkg, b" depends on:")?;
    push_dependencies(alloc, report, &pkg.info().depends())?;
    report.push(b'\n')?;
    Ok(())
}

// Appends the line that says that a package owns a path.
fn push_owner(report: &mut Vec<u8>, path: &[u8], pkg: &PackageView<'_>) -> Result<(), AllocError>
    ensures { OnOk result (report.new.items
        ≡ report.old.items ++ owner_line path.now (package_value pkg.now)) }
{
    report.push(b'/')?;
    report.extend_from_slice(path)?;
    report.extend_from_slice(b" is owned by ")?;
    push_heading(report, pkg, b"")?;
    Ok(())
}

// Appends a line with name, `-` and version of a package, followed by the text `rest`.
fn push_heading(report: &mut Vec<u8>, pkg: &PackageView<'_>, rest: &[u8]) -> Result<(), AllocError>
    // The line `NAME-VERSION`, followed by `rest`, is appended.
    ensures { OnOk result (report.new.items ≡ report.old.items
        ++ report_line (name_dash_version (package_name (package_value pkg.now))
        (package_version_text (package_value pkg.now)) ++ rest.now)) }
{
    let info = pkg.info();
    report.extend_from_slice(info.name())?;
    report.push(b'-')?;
    report.extend_from_slice(info.version())?;
    push_line(report, rest)?;
    Ok(())
}

/// Appends a line for each dependency of a list. The entries of the list count from 1.
pub(crate) fn push_dependencies<'a>(
    alloc: Global,
    report: &mut Vec<u8>,
    depends: &List<'a, DepView<'a>>,
) -> Result<(), AllocError>
    ensures { OnOk result (report.new.items ≡ report.old.items
        ++ report_lines (map dep_text (dependencies_in_list_value (list_value depends.now)))) }
{
    for i in 0..depends.len() {
        push_entry(alloc, report, &depends.get(i + 1))?;
    }
    Ok(())
}

// Appends the line of an entry of a list of dependencies, unless the entry is no dependency.
fn push_entry(alloc: Global, report: &mut Vec<u8>, entry: &DepView<'_>) -> Result<(), AllocError>
    // The line of this dependency is appended; none if the entry is no dependency.
    ensures { OnOk result (report.new.items ≡ report.old.items
        ++ option_map_or (λ d. report_line (dep_text d))
        (dependency_in (dependency_value entry.now)) []) }
{
    match dep_of(entry.name(), entry.version(), entry.matching()) {
        Some(needed) => push_dependency(alloc, report, &needed),
        None => Ok(()),
    }
}

// Appends the line of a dependency, which has its text (`dep_text`).
fn push_dependency(alloc: Global, report: &mut Vec<u8>, needed: &Dep<'_>) -> Result<(), AllocError>
    ensures { OnOk result (report.new.items
        ≡ report.old.items ++ report_line (dep_text (dependency needed.now))) }
{
    let text = dep_text(alloc, needed)?;
    push_line(report, text.as_bytes())
}

/// Appends a text and a line end.
pub(crate) fn push_line(report: &mut Vec<u8>, text: &[u8]) -> Result<(), AllocError>
    ensures { OnOk result (report.new.items ≡ report.old.items ++ report_line text.now) }
{
    report.extend_from_slice(text)?;
    report.push(b'\n')?;
    Ok(())
}
