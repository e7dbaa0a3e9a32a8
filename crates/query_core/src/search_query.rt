//! What `search` prints (apk(8)). The rule is in `docs/commands.md`, "`search`".
ghost use Rattle.pool_core.specs.candidate_core.Options.{places_passing_counted_from};
ghost use Rattle.dep_core.specs.Meets.{dependency};
ghost use Rattle.query_core.specs.EntryFound.{is_provides_entry_found};
ghost use Rattle.query_core.specs.Search.{is_part_of_name_matched_by_some_pattern, is_search_candidate, provided_names, search_report};
ghost use Rattle.std.specs.List.{list_any};
ghost use Rattle.std.specs.Prelude.{◌≡◌, IfOk};

use crate::candidates::{LineForm, place_of, push_if, report};
use base_core::Text;
use command_core::Operands;
use dep_core::Dep;
use pool_core::{CandId, Deps, Details, Sealed};
use std::alloc::{AllocError, Global};

/// What `search` prints: a line for each candidate that is from a repository, if a pattern matches
/// some part of its own name, or of a name that it provides.
///
/// # Errors
///
/// Out of memory.
pub fn search(alloc: Global, pool: &Sealed<'_>, patterns: &Operands) -> Result<Text, AllocError>
    ensures { IfOk result (λ report. report
        ≡ search_report pool.now.candidates patterns.now) }
{
    let places = found_places(alloc, pool, patterns)?;
    report(alloc, pool, &places, LineForm::Short)
}

// The places of the candidates that `search` prints.
fn found_places(
    alloc: Global,
    pool: &Sealed<'_>,
    patterns: &Operands,
) -> Result<Vec<CandId>, AllocError>
    ensures { IfOk result (λ places. places.items
        ≡ places_passing_counted_from 0 (is_search_candidate patterns.now) pool.now.candidates) }
{
    let mut places = Vec::new(alloc);
    for number in 0..pool.len() {
        let place = place_of(number)?;
        let details = pool.details(place);
        push_if(&mut places, place, is_search_candidate(&details, patterns))?;
    }
    Ok(places)
}

// Whether `search` prints a candidate: it is from a repository, and a pattern matches some part of
// one of its names.
fn is_search_candidate(details: &Details<'_>, patterns: &Operands) -> bool
    ensures { result ≡ is_search_candidate patterns.now details.now }
{
    if details.repo().is_none() {
        return false;
    }
    if is_part_of_name_matched_by_some_pattern(patterns, details.name()) {
        return true;
    }
    is_provided_name_found(patterns, &details.provides())
}

// Whether one of the patterns matches some part of a name that these entries of provides have.
fn is_provided_name_found(patterns: &Operands, provides: &Deps<'_>) -> bool
    ensures { result ≡ list_any (is_part_of_name_matched_by_some_pattern patterns.now)
        (provided_names provides.now) }
{
    for i in 0..provides.len() {
        if is_provides_entry_found(patterns, &provides.get(i)) {
            return true;
        }
    }
    false
}

// Whether an entry of provides is no conflict, and one of the patterns matches some part of its
// name.
fn is_provides_entry_found(patterns: &Operands, entry: &Dep<'_>) -> bool
    ensures { result ≡ is_provides_entry_found patterns.now (dependency entry.now) }
{
    if entry.conflict {
        return false;
    }
    is_part_of_name_matched_by_some_pattern(patterns, entry.name)
}

// Whether one of the patterns matches some part of a name.
fn is_part_of_name_matched_by_some_pattern(patterns: &Operands, name: &[u8]) -> bool
    ensures { result ≡ is_part_of_name_matched_by_some_pattern patterns.now name.now }
{
    for i in 0..patterns.len() {
        if star_patterns::matches_within(patterns.get(i).text.as_bytes(), name) {
            return true;
        }
    }
    false
}
