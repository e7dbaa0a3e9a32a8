//! The report of a change that is only simulated, and two of its parts, which the report of a
//! change that is made (`change_report`) has too: the lines on changes of packages, and the sum.
//! The lines are defined in `docs/commands.md`, "`add` and `del`", part "What is reported", and
//! "`upgrade` and `fix`".
ghost use Rattle.package_changes.specs.Changes.{changes_of};
ghost use Rattle.package_changes.specs.Placed.{candidates_at, replacement_of};
ghost use Rattle.package_changes.specs.Report.{candidate_installed_size, selected_sum_line, simulated_report};
ghost use Rattle.package_changes.specs.Seen.{change_seen, changes_seen, placed_replacement_from_parts};
ghost use Rattle.solve_core.specs.candidate_core.Rank.{candidate_at};
ghost use Rattle.report_core.specs.Reports.{change_lines, change_text, name_with_version_change, name_with_version_in_brackets, numbered_change, report_line, bytes_and_package_count_text};
ghost use Rattle.std.specs.Fmt.{decimal};
ghost use Rattle.std.specs.Option.{option_map_or};
ghost use Rattle.std.specs.Prelude.{◌≡◌, ◌+◌, ◌≤◌, ◌++◌, ℕ, List, codes, length, map, sum_by, IfOk, OnOk};

use crate::change::Change;
use crate::changes::Changes;
use crate::selected::candidate_at;
use crate::stays::push_stay_lines;
use base_core::Words;
use own_core::Db;
use report_core::Report;
use solve_core::{CandId, Sealed, Trace};
use std::alloc::{AllocError, Global};

/// The report of a change that is only simulated: its changes, the installed packages with a name
/// of `to_remove` that are kept, and the sum over the selected candidates. `trace` are their places
/// in the pool.
#[tactic(auto, unfolding(crate::specs::Report::simulated_report))]
pub fn simulated_report(
    alloc: Global,
    db: &Db<'_>,
    pool: &Sealed<'_>,
    trace: &Trace,
    changes: &Changes<'_>,
    to_remove: &Words,
) -> Result<Report, AllocError>
    // If the changes are those of this replacement, with some names `again` to be installed again,
    // the report is that of the definition.
    ensures { IfOk result (λ report. (again : List (List ℕ))
        → map (λ c. c.change) (changes_seen changes.now)
        ≡ changes_of (replacement_of
        (placed_replacement_from_parts db.now pool.now trace.now again))
        → report ≡ simulated_report
        (replacement_of (placed_replacement_from_parts db.now pool.now trace.now again)) to_remove.now) }
{
    let mut report = Report::new(alloc);
    push_change_lines(&mut report, changes)?;
    push_stay_lines(alloc, &mut report, db, pool, trace, to_remove)?;
    push_selected_sum(&mut report, pool, trace)?;
    Ok(report)
}

/// Adds a line for each change, which begins with its number and the number of all changes: `(1/3)
/// `.
pub fn push_change_lines(report: &mut Report, changes: &Changes<'_>) -> Result<(), AllocError>
    ensures { OnOk result (report.new
        ≡ report.old ++ change_lines (map (λ c. c.change) (changes_seen changes.now))) }
{
    let count = changes.len();
    for i in 0..count {
        push_change_line(report, i, count, &changes.get(i).change)?;
    }
    Ok(())
}

/// Adds the line of a change. `before` is the number of changes before it, `count` that of all
/// changes.
fn push_change_line(
    report: &mut Report,
    before: usize,
    count: usize,
    change: &Change<'_>,
) -> Result<(), AllocError>
    ensures { OnOk result (report.new ≡ report.old
        ++ report_line (numbered_change (before + 1) count (change_seen change.now))) }
{
    push_number(report, before as u128 + 1, count as u128)?;
    push_change_text(report, change)?;
    report.push(b"\n")?;
    Ok(())
}

/// Adds the number of a change, counted from 1, and how many there are: `(1/3) `.
fn push_number(report: &mut Report, number: u128, count: u128) -> Result<(), AllocError>
    ensures { OnOk result (report.new ≡ report.old
        ++ (codes "(" ++ decimal number ++ codes "/" ++ decimal count ++ codes ") ")) }
{
    report.push(b"(")?;
    report.number(number)?;
    report.push(b"/")?;
    report.number(count)?;
    report.push(b") ")?;
    Ok(())
}

/// Adds the change of a package: a word for it, its name, and its versions.
fn push_change_text(report: &mut Report, change: &Change<'_>) -> Result<(), AllocError>
    ensures { OnOk result (report.new ≡ report.old ++ change_text (change_seen change.now)) }
{
    match change {
        Change::Install(name, version) => push_version(report, b"Installing ", name, version),
        Change::Reinstall(name, version) => push_version(report, b"Reinstalling ", name, version),
        Change::Purge(name, version) => push_version(report, b"Purging ", name, version),
        Change::Upgrade(name, old, new) => push_versions(report, b"Upgrading ", name, old, new),
        Change::Downgrade(name, old, new) => push_versions(report, b"Downgrading ", name, old, new),
        Change::Replace(name, old, new) => push_versions(report, b"Replacing ", name, old, new),
    }
}

/// Adds `word`, then a package with its version: `Installing lib (1.1-r0)`.
fn push_version(
    report: &mut Report,
    word: &[u8],
    name: &[u8],
    version: &[u8],
) -> Result<(), AllocError>
    ensures { OnOk result (report.new
        ≡ report.old ++ (word.now ++ name_with_version_in_brackets name.now version.now)) }
{
    report.push(word)?;
    report.push(name)?;
    report.push(b" (")?;
    report.push(version)?;
    report.push(b")")?;
    Ok(())
}

/// Adds `word`, then a package with its version before and after: `Upgrading app (1.0-r0 ->
/// 2.0-r0)`.
fn push_versions(
    report: &mut Report,
    word: &[u8],
    name: &[u8],
    old: &[u8],
    new: &[u8],
) -> Result<(), AllocError>
    ensures { OnOk result (report.new
        ≡ report.old ++ (word.now ++ name_with_version_change name.now old.now new.now)) }
{
    report.push(word)?;
    report.push(name)?;
    report.push(b" (")?;
    report.push(old)?;
    report.push(b" -> ")?;
    report.push(new)?;
    report.push(b")")?;
    Ok(())
}

/// Adds the last line of a simulated report: how many bytes and packages there are after the
/// change, by the installed sizes of the selected candidates.
fn push_selected_sum(
    report: &mut Report,
    pool: &Sealed<'_>,
    trace: &Trace,
) -> Result<(), AllocError>
    ensures { OnOk result (report.new
        ≡ report.old ++ selected_sum_line (candidates_at pool.now trace.now)) }
{
    let bytes = selected_size(pool, trace);
    let count = selected_count(pool, trace);
    push_sum_line(report, bytes, count)?;
    Ok(())
}

/// Adds the last line of a report: how many bytes and packages are installed.
pub fn push_sum_line(report: &mut Report, bytes: u128, count: u128) -> Result<(), AllocError>
    ensures { OnOk result (report.new ≡ report.old
        ++ report_line (bytes_and_package_count_text bytes count)) }
{
    push_sum(report, bytes, count)?;
    report.push(b"\n")?;
    Ok(())
}

/// Adds the text of the last line, `OK: BYTES bytes in COUNT packages`, without its line end.
fn push_sum(report: &mut Report, bytes: u128, count: u128) -> Result<(), AllocError>
    ensures { OnOk result (report.new ≡ report.old ++ bytes_and_package_count_text bytes count) }
{
    report.push(b"OK: ")?;
    report.number(bytes)?;
    report.push(b" bytes in ")?;
    report.number(count)?;
    report.push(b" packages")?;
    Ok(())
}

/// The bytes that the selected candidates take when they are installed. A u128 can hold the sum of
/// any number of them.
fn selected_size(pool: &Sealed<'_>, trace: &Trace) -> u128
    ensures { result ≡ sum_by candidate_installed_size (candidates_at pool.now trace.now) }
{
    let mut sum: u128 = 0;
    for i in 0..trace.len() {
        sum += size_at(pool, trace.get(i)) as u128;
    }
    sum
}

/// The bytes that the candidate at the place `id` takes when it is installed; 0 if there is none.
fn size_at(pool: &Sealed<'_>, id: CandId) -> u64
    ensures { result ≡ option_map_or candidate_installed_size (candidate_at pool.now id) 0 }
{
    match candidate_at(pool, id) {
        None => 0,
        Some(candidate) => candidate.info.installed_size(),
    }
}

/// How many candidates are selected.
fn selected_count(pool: &Sealed<'_>, trace: &Trace) -> u128
    ensures { result ≡ length (candidates_at pool.now trace.now) }
{
    let mut count: u128 = 0;
    for i in 0..trace.len() {
        count += count_at(pool, trace.get(i)) as u128;
    }
    count
}

/// How many candidates there are at the place `id` of the pool: 1, or 0 if it is no place of the
/// pool.
fn count_at(pool: &Sealed<'_>, id: CandId) -> u8
    // The number is that of the definition of places.
    ensures value { result ≡ option_map_or (λ _. 1) (candidate_at pool.now id) 0 }
    // At most 1, so that the sum of all counts cannot overflow.
    ensures one { result ≤ 1 }
{
    match pool.at(id) {
        None => 0,
        Some(_) => 1,
    }
}
