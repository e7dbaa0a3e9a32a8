//! The lines of candidates, one after another: what `list` and `search` print. `search_query` and
//! `list_query` choose the candidates. The rules are in `docs/commands.md`, "`list`" and
//! "`search`".
ghost use Rattle.query_core.specs.Appends.{Appends};
ghost use Rattle.query_core.specs.Lines.{description_part, line_in_form};
ghost use Rattle.query_core.specs.Order.{printed_version, candidate_places_cmp};
ghost use Rattle.report_core.specs.QueryReports.{installed_mark, text_between_unless_empty};
ghost use Rattle.report_core.specs.Reports.{name_dash_version};
ghost use Rattle.base_core.specs.Sorted.{sorted_by};
ghost use Rattle.std.specs.List.{filter_map, flat_map};
ghost use Rattle.std.specs.Prelude.{◌≡◌, ◌<◌, ◌∷◌, ◌++◌, [], All, IfOk, OnOk, if◌then◌else◌, length, map, slice_get};

use crate::order::in_order;
use crate::report_out::{ReportLength, ReportOut};
use base_core::Text;
use pool_core::{CandId, Details, RankedOption, Sealed};
use std::alloc::{AllocError, Global};
use version_core::Version;

/// The form of the line of a candidate.
#[derive(Clone, Copy)]
pub(crate) enum LineForm {
    /// The line of `list`, with architecture, origin, license and the mark of an installed package.
    Full,
    /// The line of `search`: name and version.
    Short,
}

/// A number, counted from 0, as a place in the list of candidates. If the number is too large for a
/// place, which no list of candidates reaches, the call fails as if out of memory.
pub(crate) fn place_of(number: usize) -> Result<CandId, AllocError>
    ensures { IfOk result (λ place. place ≡ number) }
{
    match u32::try_from(number) {
        Ok(place) => Ok(CandId { place }),
        Err(_) => Err(AllocError),
    }
}

/// Appends a place to the list if `is_selected` is true: the query prints its candidate.
pub(crate) fn push_if(
    places: &mut Vec<CandId>,
    place: CandId,
    is_selected: bool,
) -> Result<(), AllocError>
    ensures { OnOk result (places.new.items
        ≡ places.old.items ++ (if is_selected then place ∷ [] else [])) }
{
    if is_selected {
        places.push(place)?;
    }
    Ok(())
}

/// The lines of the candidates at these places, in the order in which queries print candidates. The
/// length of the report is counted first, so that memory is asked for once.
pub(crate) fn report(
    alloc: Global,
    pool: &Sealed<'_>,
    places: &[CandId],
    form: LineForm,
) -> Result<Text, AllocError>
    // Each place is that of a candidate of the pool.
    requires { All (λ place. place < length pool.now.candidates) places.now }
    // The report has the lines of the candidates at these places, in the order of queries.
    ensures { IfOk result (λ report. report ≡ flat_map (line_in_form form)
        (filter_map (slice_get pool.now.candidates)
        (sorted_by (candidate_places_cmp pool.now.candidates) places.now))) }
{
    let ordered = in_order(alloc, pool, places)?;
    let mut length = ReportLength { bytes: 0 };
    put_lines(&mut length, pool, &ordered.rankings, form)?;
    let mut report = Vec::with_capacity(alloc, length.bytes)?;
    put_lines(&mut report, pool, &ordered.rankings, form)?;
    let is_exact = report.len() == length.bytes;
    // Memory was taken for exactly the bytes that were written.
    prove!(is_exact);
    Ok(Text::from_vec(report))
}

// Writes a line for the candidate of each ranking, in the order of the rankings. A ranking has the
// keys by which a candidate is ordered, and the candidate's place.
fn put_lines<O: ReportOut>(
    out: &mut O,
    pool: &Sealed<'_>,
    rankings: &[RankedOption<'_>],
    form: LineForm,
) -> Result<(), AllocError>
    // Each ranking has the place of a candidate of the pool.
    requires { All (λ r. r.place < length pool.now.candidates) rankings.now }
    // The lines of the ranked candidates are appended to the output, in this order.
    ensures { OnOk result (Appends O.holds out.old out.new (flat_map (line_in_form form)
        (filter_map (slice_get pool.now.candidates) (map (λ r. r.place) rankings.now)))) }
{
    for i in 0..rankings.len() {
        let ranking = &rankings[i];
        put_line(out, &pool.details(ranking.id), form)?;
    }
    Ok(())
}

// Writes the line of a candidate to the output.
fn put_line<O: ReportOut>(
    out: &mut O,
    details: &Details<'_>,
    form: LineForm,
) -> Result<(), AllocError>
    ensures { OnOk result (Appends O.holds out.old out.new (line_in_form form details.now)) }
{
    put_name_version(out, details)?;
    if let LineForm::Full = form {
        put_description(out, details)?;
    }
    out.put(b"\n")
}

// Writes name, `-` and version of a candidate to the output.
fn put_name_version<O: ReportOut>(out: &mut O, details: &Details<'_>) -> Result<(), AllocError>
    ensures { OnOk result (Appends O.holds out.old out.new
        (name_dash_version details.now.name (printed_version details.now.version))) }
{
    out.put(details.name())?;
    out.put(b"-")?;
    out.put(printed_version(&details.version()))
}

/// The text of a version, as it is printed; empty if there is no version.
pub(crate) fn printed_version<'a>(version: &Option<Version<'a>>) -> &'a [u8]
    ensures { result.now ≡ printed_version version.now }
{
    match version {
        Some(version) => version.text(),
        None => b"",
    }
}

// Writes what follows name and version in a line of `list`: architecture, origin, license and the
// mark of an installed package.
fn put_description<O: ReportOut>(out: &mut O, details: &Details<'_>) -> Result<(), AllocError>
    ensures { OnOk result (Appends O.holds out.old out.new (description_part details.now)) }
{
    let info = details.candidate().info;
    put_between(out, b" ", info.arch(), b"")?;
    put_between(out, b" {", info.origin(), b"}")?;
    put_between(out, b" (", info.license(), b")")?;
    put_installed_mark(out, details.is_installed())
}

// Writes the mark of an installed package, if the package is installed.
fn put_installed_mark<O: ReportOut>(out: &mut O, is_installed: bool) -> Result<(), AllocError>
    ensures { OnOk result (Appends O.holds out.old out.new (installed_mark is_installed)) }
{
    if !is_installed {
        return Ok(());
    }
    out.put(b" [installed]")
}

// Writes a text between two others; writes nothing if the text is empty.
fn put_between<O: ReportOut>(
    out: &mut O,
    before: &[u8],
    text: &[u8],
    after: &[u8],
) -> Result<(), AllocError>
    ensures { OnOk result (Appends O.holds out.old out.new
        (text_between_unless_empty before.now text.now after.now)) }
{
    if text.is_empty() {
        return Ok(());
    }
    out.put(before)?;
    out.put(text)?;
    out.put(after)
}
