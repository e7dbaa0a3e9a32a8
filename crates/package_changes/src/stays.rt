//! The lines `NAME stays` on packages that were to be removed and are kept, since others need them.
//! `simulated_report` and `change_report` add them. The line is defined in `docs/commands.md`,
//! "`add` and `del`", part "What is reported".
ghost use Rattle.own_core.specs.PlanLists.{sorted_distinct_names};
ghost use Rattle.own_core.specs.db_core.Seen.{packages_of};
ghost use Rattle.package_changes.specs.Changes.{is_candidate_named};
ghost use Rattle.package_changes.specs.Placed.{candidates_at};
ghost use Rattle.package_changes.specs.SelectedNames.{place_paired_with_name};
ghost use Rattle.package_changes.specs.Report.{is_candidate_needed_by_other, names_needing_candidate, lines_on_name_that_stays, lines_on_names_that_stay, was_installed};
ghost use Rattle.solve_core.specs.candidate_core.Candidates.{Candidate};
ghost use Rattle.solve_core.specs.candidate_core.Rank.{candidate_at};
ghost use Rattle.report_core.specs.Reports.{report_line, with_spaces_before, still_needed_text};
ghost use Rattle.std.specs.List.{filter, flat_map};
ghost use Rattle.std.specs.Prelude.{◌≡◌, ◌++◌, if◌then◌else◌, [], ◌∷◌, map, option_to_list, is_some, IfOk, OnOk};

use crate::names::{names_of_words, sorted_distinct_names};
use crate::selected::SelectedNames;
use base_core::Words;
use own_core::Db;
use report_core::Report;
use solve_core::{CandId, Details, Sealed, Trace};
use std::alloc::{AllocError, Global};

/// Adds a line for each name of `to_remove` that both an installed package and a selected candidate
/// have, in byte order, each name once. The line says that the package is kept, and which others
/// need it. All selected candidates are looked at once, and again for each line.
pub fn push_stay_lines(
    alloc: Global,
    report: &mut Report,
    db: &Db<'_>,
    pool: &Sealed<'_>,
    trace: &Trace,
    to_remove: &Words,
) -> Result<(), AllocError>
    ensures { OnOk result (report.new ≡ report.old ++ lines_on_names_that_stay (packages_of db.now)
        (candidates_at pool.now trace.now) to_remove.now) }
{
    let names = names_of_words(alloc, to_remove)?;
    let names = sorted_distinct_names(names)?;
    let selected = SelectedNames::of(alloc, pool, trace)?;
    // The names of `to_remove` that are still selected.
    let staying = selected_among(alloc, &names, &selected)?;
    push_lines_of_names(alloc, report, db, pool, trace, &staying)?;
    Ok(())
}

/// Of these names, those that a selected candidate has, in the same order.
fn selected_among<'n>(
    alloc: Global,
    names: &[&'n [u8]],
    selected: &SelectedNames<'_>,
) -> Result<Vec<&'n [u8]>, AllocError>
    // Exactly the names for which the table `selected` has a place, in their order.
    ensures { IfOk result (λ found. found.items
        ≡ filter (λ name. is_some (place_paired_with_name name.now selected.now)) names.now) }
{
    names
        .iter()
        .copied()
        .filter(|name| selected.place_of(name).is_some())
        .collect(alloc)
}

/// Adds the lines of those of these names that were installed before, in the order of the names.
fn push_lines_of_names(
    alloc: Global,
    report: &mut Report,
    db: &Db<'_>,
    pool: &Sealed<'_>,
    trace: &Trace,
    names: &[&[u8]],
) -> Result<(), AllocError>
    // The lines of the names that were installed are appended.
    ensures { OnOk result (report.new ≡ report.old
        ++ flat_map (lines_on_name_that_stays (candidates_at pool.now trace.now))
        (filter (was_installed (packages_of db.now)) (map (λ n. n.now) names.now))) }
{
    for name in names {
        push_lines_of_name(alloc, report, db, pool, trace, name)?;
    }
    Ok(())
}

/// Adds the lines of a name, if a package with this name was installed before.
fn push_lines_of_name(
    alloc: Global,
    report: &mut Report,
    db: &Db<'_>,
    pool: &Sealed<'_>,
    trace: &Trace,
    name: &[u8],
) -> Result<(), AllocError>
    // The lines of this name are appended, if it was installed.
    ensures { OnOk result (report.new ≡ report.old
        ++ (if was_installed (packages_of db.now) name.now
        then lines_on_name_that_stays (candidates_at pool.now trace.now) name.now else [])) }
{
    if was_installed(db, name) {
        push_selected_lines(alloc, report, pool, trace, name)?;
    }
    Ok(())
}

/// Whether a package of the database has this name.
fn was_installed(db: &Db<'_>, name: &[u8]) -> bool
    ensures { result ≡ was_installed (packages_of db.now) name.now }
{
    db.find(name).is_some()
}

/// Adds a line for each selected candidate with this name; a selection has at most one.
fn push_selected_lines(
    alloc: Global,
    report: &mut Report,
    pool: &Sealed<'_>,
    trace: &Trace,
    name: &[u8],
) -> Result<(), AllocError>
    ensures { OnOk result (report.new
        ≡ report.old ++ lines_on_name_that_stays (candidates_at pool.now trace.now) name.now) }
{
    for i in 0..trace.len() {
        push_line_of(alloc, report, pool, trace, trace.get(i), name)?;
    }
    Ok(())
}

/// Adds a line for the candidate at the place `id` of the pool, if there is one and it has this
/// name.
fn push_line_of(
    alloc: Global,
    report: &mut Report,
    pool: &Sealed<'_>,
    trace: &Trace,
    id: CandId,
    name: &[u8],
) -> Result<(), AllocError>
    // A line is appended if the candidate at the place has the name.
    ensures { OnOk result (report.new ≡ report.old
        ++ flat_map (λ (c : Candidate). report_line (still_needed_text name.now
        (names_needing_candidate (candidates_at pool.now trace.now) c)))
        (filter (is_candidate_named name.now) (option_to_list (candidate_at pool.now id)))) }
{
    match pool.at(id) {
        None => Ok(()),
        Some(details) => {
            push_line_if_named(alloc, report, pool, trace, &details, name)?;
            Ok(())
        }
    }
}

/// Adds a line for the candidate with these details, if it has this name.
fn push_line_if_named(
    alloc: Global,
    report: &mut Report,
    pool: &Sealed<'_>,
    trace: &Trace,
    details: &Details<'_>,
    name: &[u8],
) -> Result<(), AllocError>
    // A line is appended if the candidate has the name.
    ensures { OnOk result (report.new ≡ report.old
        ++ (if is_candidate_named name.now details.now then report_line (still_needed_text name.now
        (names_needing_candidate (candidates_at pool.now trace.now) details.now)) else [])) }
{
    if details.name() != name {
        return Ok(());
    }
    let names = names_needing_candidate(alloc, pool, trace, details)?;
    push_stay_line(report, name, &names)?;
    Ok(())
}

/// The names of the other selected candidates that need the candidate `needed`, in byte order.
fn names_needing_candidate<'a>(
    alloc: Global,
    pool: &Sealed<'a>,
    trace: &Trace,
    needed: &Details<'_>,
) -> Result<Vec<&'a [u8]>, AllocError>
    ensures { IfOk result (λ names. map (λ n. n.now) names.items
        ≡ names_needing_candidate (candidates_at pool.now trace.now) needed.now) }
{
    let mut names = Vec::new(alloc);
    push_names_in_need(&mut names, pool, trace, needed)?;
    sorted_distinct_names(names)
}

/// Appends to `names` the names of the other selected candidates that need the candidate `needed`.
fn push_names_in_need<'a>(
    names: &mut Vec<&'a [u8]>,
    pool: &Sealed<'a>,
    trace: &Trace,
    needed: &Details<'_>,
) -> Result<(), AllocError>
    // The names of the selected candidates that need `needed` are appended, in the order of choice.
    ensures { OnOk result (map (λ n. n.now) names.new.items ≡ map (λ n. n.now) names.old.items
        ++ map (λ (c : Candidate). c.name)
        (filter (is_candidate_needed_by_other needed.now) (candidates_at pool.now trace.now))) }
{
    for i in 0..trace.len() {
        push_name_if_it_needs(names, pool, trace.get(i), needed)?;
    }
    Ok(())
}

/// Appends the name of the candidate at the place `id`, if there is one and it is another candidate
/// that needs `needed`.
fn push_name_if_it_needs<'a>(
    names: &mut Vec<&'a [u8]>,
    pool: &Sealed<'a>,
    id: CandId,
    needed: &Details<'_>,
) -> Result<(), AllocError>
    // The name of the candidate at the place is appended, if it is another one that needs `needed`.
    ensures { OnOk result (map (λ n. n.now) names.new.items ≡ map (λ n. n.now) names.old.items
        ++ map (λ (c : Candidate). c.name)
        (filter (is_candidate_needed_by_other needed.now) (option_to_list
        (candidate_at pool.now id)))) }
{
    match pool.at(id) {
        None => Ok(()),
        Some(details) => {
            push_name_if(
                names,
                details.name(),
                is_candidate_needed_by_other(needed, &details),
            )?;
            Ok(())
        }
    }
}

/// Adds the name to the list if `is_wanted` is true.
fn push_name_if<'a>(
    names: &mut Vec<&'a [u8]>,
    name: &'a [u8],
    is_wanted: bool,
) -> Result<(), AllocError>
    ensures { OnOk result (map (λ n. n.now) names.new.items ≡ map (λ n. n.now) names.old.items
        ++ (if is_wanted then name.entry.now ∷ [] else [])) }
{
    if is_wanted {
        names.push(name)?;
    }
    Ok(())
}

/// Whether `details` are those of another candidate than `needed`, and that candidate needs
/// `needed`.
fn is_candidate_needed_by_other(needed: &Details<'_>, details: &Details<'_>) -> bool
    ensures { result ≡ is_candidate_needed_by_other needed.now details.now }
{
    if details.name() == needed.name() {
        return false;
    }
    details.needs(needed)
}

/// Adds the line that says that the package `name` is kept. `names` are the packages that need it.
fn push_stay_line(report: &mut Report, name: &[u8], names: &[&[u8]]) -> Result<(), AllocError>
    ensures { OnOk result (report.new ≡ report.old
        ++ report_line (still_needed_text name.now (map (λ n. n.now) names.now))) }
{
    push_stay_text(report, name, names)?;
    report.push(b"\n")?;
    Ok(())
}

/// Adds the text of this line without its line end: `NAME stays; required by: NAMES`, or `NAME
/// stays` if no other package needs it.
fn push_stay_text(report: &mut Report, name: &[u8], names: &[&[u8]]) -> Result<(), AllocError>
    ensures { OnOk result (report.new
        ≡ report.old ++ still_needed_text name.now (map (λ n. n.now) names.now)) }
{
    report.push(name)?;
    if names.is_empty() {
        report.push(b" stays")?;
        return Ok(());
    }
    report.push(b" stays; required by:")?;
    push_spaced(report, names)?;
    Ok(())
}

/// Adds names, with a space before each.
fn push_spaced(report: &mut Report, names: &[&[u8]]) -> Result<(), AllocError>
    ensures { OnOk result (report.new
        ≡ report.old ++ with_spaces_before (map (λ n. n.now) names.now)) }
{
    for name in names {
        report.push(b" ")?;
        report.push(name)?;
    }
    Ok(())
}
