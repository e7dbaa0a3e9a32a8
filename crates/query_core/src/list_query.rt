//! What `list` prints (apk(8)). The rule is in `docs/commands.md`, "`list`".
ghost use Rattle.pool_core.specs.candidate_core.Options.{places_passing_counted_from};
ghost use Rattle.query_core.specs.List.{is_list_candidate, is_whole_name_matched_by_some_pattern, list_report};
ghost use Rattle.std.specs.Prelude.{◌≡◌, IfOk};

use crate::candidates::{LineForm, place_of, push_if, report};
use base_core::Text;
use command_core::Operands;
use pool_core::{CandId, Details, Sealed};
use std::alloc::{AllocError, Global};

/// What `list` prints: a line for each candidate whose name a pattern matches, or for all
/// candidates if no pattern is given. With `installed_only`, candidates that are not installed have
/// no line.
///
/// # Errors
///
/// Out of memory.
pub fn list(
    alloc: Global,
    pool: &Sealed<'_>,
    patterns: &Operands,
    installed_only: bool,
) -> Result<Text, AllocError>
    ensures { IfOk result (λ report. report
        ≡ list_report pool.now.candidates patterns.now installed_only) }
{
    let places = listed_places(alloc, pool, patterns, installed_only)?;
    report(alloc, pool, &places, LineForm::Full)
}

// The places of the candidates that `list` prints.
fn listed_places(
    alloc: Global,
    pool: &Sealed<'_>,
    patterns: &Operands,
    installed_only: bool,
) -> Result<Vec<CandId>, AllocError>
    ensures { IfOk result (λ places. places.items
        ≡ places_passing_counted_from 0
        (is_list_candidate patterns.now installed_only) pool.now.candidates) }
{
    let mut places = Vec::new(alloc);
    for number in 0..pool.len() {
        let place = place_of(number)?;
        let details = pool.details(place);
        push_if(
            &mut places,
            place,
            is_list_candidate(&details, patterns, installed_only),
        )?;
    }
    Ok(places)
}

// Whether `list` prints a candidate: a pattern matches its name, or there is no pattern; and the
// candidate is installed, or `installed_only` is false.
fn is_list_candidate(details: &Details<'_>, patterns: &Operands, installed_only: bool) -> bool
    ensures { result ≡ is_list_candidate patterns.now installed_only details.now }
{
    if installed_only && !details.is_installed() {
        return false;
    }
    if patterns.is_empty() {
        return true;
    }
    is_whole_name_matched_by_some_pattern(patterns, details.name())
}

// Whether one of the patterns matches the whole name.
fn is_whole_name_matched_by_some_pattern(patterns: &Operands, name: &[u8]) -> bool
    ensures { result ≡ is_whole_name_matched_by_some_pattern patterns.now name.now }
{
    for i in 0..patterns.len() {
        if star_patterns::matches(patterns.get(i).text.as_bytes(), name) {
            return true;
        }
    }
    false
}
