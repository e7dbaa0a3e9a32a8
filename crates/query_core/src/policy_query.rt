//! What `policy` prints (apk(8)). The rule is in `docs/commands.md`, "`policy`".
ghost use Rattle.query_core.specs.Appends.{Appends};
ghost use Rattle.query_core.specs.Policy.{name_policy, policy_report};
ghost use Rattle.query_core.specs.VersionPlaces.{repository_line_numbered, distinct_repository_lines, version_lines};
ghost use Rattle.report_core.specs.QueryReports.{policy_database_line, indented_policy_line, policy_heading, policy_repository_line, policy_version_heading};
ghost use Rattle.std.specs.List.{flat_map};
ghost use Rattle.std.specs.Prelude.{◌≡◌, ◌<◌, ◌++◌, [], IfOk, OnOk, codes, if◌then◌else◌, nat_lt, option_copied};

use crate::candidates::printed_version;
use crate::report_out::{ReportLength, ReportOut};
use crate::version_places::{PlacedVersion, placed_versions};
use base_core::Text;
use command_core::Operands;
use dep_core::Repos;
use pool_core::Sealed;
use std::alloc::{AllocError, Global};

/// What `policy` prints. For each name it prints the versions of the candidates of this name, the
/// greatest first. Under each version it prints whether a candidate with this version is installed,
/// and which repositories have one.
///
/// # Errors
///
/// Out of memory.
pub fn policy(
    alloc: Global,
    pool: &Sealed<'_>,
    repositories: &Repos,
    names: &Operands,
) -> Result<Text, AllocError>
    ensures { IfOk result (λ report. report
        ≡ policy_report pool.now.candidates repositories.now names.now) }
{
    let mut report = Vec::new(alloc);
    for i in 0..names.len() {
        let name = names.get(i).text.as_bytes();
        add_name(alloc, &mut report, pool, repositories, name)?;
    }
    Ok(Text::from_vec(report))
}

// Appends what is printed of a name to the report. The length of this text is counted first, so
// that memory for it is asked for once.
fn add_name(
    alloc: Global,
    report: &mut Vec<u8>,
    pool: &Sealed<'_>,
    repositories: &Repos,
    name: &[u8],
) -> Result<(), AllocError>
    ensures { OnOk result (report.new.items ≡ report.old.items
        ++ name_policy pool.now.candidates repositories.now name.now) }
{
    let versions = placed_versions(alloc, pool, name)?;
    let mut length = ReportLength { bytes: 0 };
    put_name(&mut length, repositories, name, &versions)?;
    report.reserve(length.bytes)?;
    put_name(report, repositories, name, &versions)
}

// Writes the heading of a name, and what is printed of each of these versions.
fn put_name<O: ReportOut>(
    out: &mut O,
    repositories: &Repos,
    name: &[u8],
    versions: &[PlacedVersion<'_>],
) -> Result<(), AllocError>
    ensures { OnOk result (Appends O.holds out.old out.new (policy_heading name.now
        ++ flat_map (version_lines repositories.now) versions.now)) }
{
    out.put(name)?;
    out.put(b" policy:\n")?;
    for i in 0..versions.len() {
        put_version(out, repositories, &versions[i])?;
    }
    Ok(())
}

// Writes what is printed of a version: its heading, a line for the database if the version is
// installed, and a line for each repository that has it.
fn put_version<O: ReportOut>(
    out: &mut O,
    repositories: &Repos,
    version: &PlacedVersion<'_>,
) -> Result<(), AllocError>
    ensures { OnOk result (Appends O.holds out.old out.new
        (version_lines repositories.now version.now)) }
{
    put_version_heading(out, printed_version(&version.version))?;
    put_database(out, version.is_installed)?;
    put_repositories(out, repositories, &version.repositories)
}

// Writes the line of the database of installed packages, if the version is installed.
fn put_database<O: ReportOut>(out: &mut O, is_installed: bool) -> Result<(), AllocError>
    ensures { OnOk result (Appends O.holds out.old out.new
        (if is_installed then policy_database_line else [])) }
{
    if !is_installed {
        return Ok(());
    }
    put_place(out, b"lib/apk/db/installed")
}

// Writes the heading of a version, which is printed below the heading of the name.
fn put_version_heading<O: ReportOut>(out: &mut O, version: &[u8]) -> Result<(), AllocError>
    ensures { OnOk result (Appends O.holds out.old out.new (policy_version_heading version.now)) }
{
    out.put(b"  ")?;
    out.put(version)?;
    out.put(b":\n")
}

// Writes one line for each of these repositories, which are given by their numbers. Equal numbers
// are adjacent, and only the first of them has a line.
fn put_repositories<O: ReportOut>(
    out: &mut O,
    repositories: &Repos,
    numbers: &[u64],
) -> Result<(), AllocError>
    ensures { OnOk result (Appends O.holds out.old out.new
        (distinct_repository_lines repositories.now 0 numbers.now)) }
{
    // The greatest number so far; 0 is the number of no repository.
    let mut last = 0;
    for i in 0..numbers.len() {
        last = put_greater(out, repositories, last, numbers[i])?;
    }
    Ok(())
}

// Writes the line of the repository `number` if this number is greater than `last`, the greatest
// number before it. Returns the greater of the two numbers.
fn put_greater<O: ReportOut>(
    out: &mut O,
    repositories: &Repos,
    last: u64,
    number: u64,
) -> Result<u64, AllocError>
    ensures last { IfOk result (λ now. now ≡ (if nat_lt last number then number else last)) }
    // The line is written if the number is greater than `last`.
    ensures put { OnOk result (Appends O.holds out.old out.new
        (if nat_lt last number then repository_line_numbered repositories.now number else [])) }
{
    if last < number {
        put_numbered(out, repositories, number)?;
        return Ok(number);
    }
    Ok(last)
}

// Writes the line of the repository with a number, counted from 1; nothing if there is no such
// repository.
fn put_numbered<O: ReportOut>(
    out: &mut O,
    repositories: &Repos,
    number: u64,
) -> Result<(), AllocError>
    requires { 0 < number }
    ensures { OnOk result (Appends O.holds out.old out.new
        (repository_line_numbered repositories.now number)) }
{
    let place = number as usize - 1;
    if place >= repositories.len() {
        return Ok(());
    }
    put_repository(
        out,
        repositories.tag(place),
        repositories.path(place).as_bytes(),
    )
}

// Writes the line of a repository: its tag, if it has one, and its path.
fn put_repository<O: ReportOut>(
    out: &mut O,
    tag: Option<&[u8]>,
    path: &[u8],
) -> Result<(), AllocError>
    ensures { OnOk result (Appends O.holds out.old out.new
        (policy_repository_line (option_copied tag.entry) path.now)) }
{
    match tag {
        Some(tag) => put_tagged(out, tag, path),
        None => put_place(out, path),
    }
}

// Writes the line of a repository that has a tag.
fn put_tagged<O: ReportOut>(out: &mut O, tag: &[u8], path: &[u8]) -> Result<(), AllocError>
    ensures { OnOk result (Appends O.holds out.old out.new
        (indented_policy_line (codes "@" ++ tag.now ++ codes " " ++ path.now))) }
{
    out.put(b"    @")?;
    out.put(tag)?;
    out.put(b" ")?;
    out.put(path)?;
    out.put(b"\n")
}

// Writes an indented line that says where a version is: in the database, or in a repository without
// tag.
fn put_place<O: ReportOut>(out: &mut O, text: &[u8]) -> Result<(), AllocError>
    ensures { OnOk result (Appends O.holds out.old out.new
        (indented_policy_line text.now)) }
{
    out.put(b"    ")?;
    out.put(text)?;
    out.put(b"\n")
}
