//! The versions of the candidates of a name, and where each version is: whether it is installed,
//! and which repositories have it. `policy_query` prints them. The rule is in `docs/commands.md`,
//! "`policy`".
ghost use Rattle.pool_core.specs.candidate_core.Candidates.{Candidate, is_same_version};
ghost use Rattle.pool_core.specs.candidate_core.Options.{places_passing_counted_from};
ghost use Rattle.pool_core.specs.candidate_core.Rank.{candidate_at_passes};
ghost use Rattle.pool_core.specs.option_ranks.Ranking.{Ranking};
ghost use Rattle.query_core.specs.Order.{sorted_places_passing};
ghost use Rattle.query_core.specs.Policy.{has_own_name, sorted_distinct_versions_of_name};
ghost use Rattle.query_core.specs.QueryRanking.{AreInQueryOrder, have_same_version};
ghost use Rattle.query_core.specs.VersionPlaces.{ListsPlacesOfVersion, ListsPlacesOf};
ghost use Rattle.std.specs.List.{filter, filter_map};
ghost use Rattle.std.specs.Prelude.{◌≡◌, ◌<◌, ◌≤◌, ◌++◌, ℕ, All, IfOk, OnOk, Some, length, map, option_to_list, slice_get, true, false};

use crate::candidates::push_if;
use crate::order::{Ordered, in_order};
use pool_core::{CandId, RankedOption, Sealed, VersionKey};
use std::alloc::{AllocError, Global};
use std::marker::Model;
use version_core::{Version, order_is_total};

/// A version of the candidates of a name, and where such candidates are.
#[derive(Drop)]
pub(crate) struct PlacedVersion<'a> {
    /// The version; None if its text is no version, which no tested container has.
    pub(crate) version: Option<Version<'a>>,
    /// Whether a candidate with this version is installed.
    pub(crate) is_installed: bool,
    /// The numbers of the repositories that have a candidate with this version, counted from 1.
    /// They are in rising order, and a number may be repeated.
    pub(crate) repositories: Vec<u64>,
}

impl<'a> Model for PlacedVersion<'a> {
    ghost use Rattle.query_core.specs.VersionPlaces.{VersionPlaces, version_places_from_parts};

    ghost Value = { VersionPlaces };

    // The value has the version and where it is.
    ghost view = { λ v. version_places_from_parts v.version v.is_installed v.repositories.items };
}

/// The versions of the candidates of a name, the greatest first and each text once, with whether it
/// is installed and which repositories have it. The order is that of `docs/commands.md`, "Queries".
pub(crate) fn placed_versions<'a>(
    alloc: Global,
    pool: &Sealed<'a>,
    name: &[u8],
) -> Result<Vec<PlacedVersion<'a>>, AllocError>
    // The versions are those of the candidates of this name, in the order of queries, each text
    // once.
    ensures versions { IfOk result (λ versions. map (λ v. v.version) versions.items
        ≡ sorted_distinct_versions_of_name pool.now.candidates name.now) }
    // Each says rightly where the candidates of this name with its version are.
    ensures places { IfOk result (λ versions.
        All (ListsPlacesOfVersion pool.now.candidates name.now) versions.items) }
{
    let places = named_places(alloc, pool, name)?;
    let ordered = in_order(alloc, pool, &places)?;
    grouped(alloc, pool, name, &ordered)
}

// The places of the candidates whose own name is this one.
fn named_places(alloc: Global, pool: &Sealed<'_>, name: &[u8]) -> Result<Vec<CandId>, AllocError>
    ensures { IfOk result (λ places. places.items
        ≡ places_passing_counted_from 0 (has_own_name name.now) pool.now.candidates) }
{
    let offers = pool.offers(name);
    let places = named_among(alloc, pool, name, offers)?;
    Ok(places)
}

// Those of the places `offers` whose candidates have the name as their own.
fn named_among(
    alloc: Global,
    pool: &Sealed<'_>,
    name: &[u8],
    offers: &[CandId],
) -> Result<Vec<CandId>, AllocError>
    ensures { IfOk result (λ places. places.items
        ≡ filter (λ place. candidate_at_passes pool.now (has_own_name name.now) place) offers.now) }
{
    let mut places = Vec::new(alloc);
    for place in offers {
        let is_named = is_named_at(pool, *place, name);
        push_if(&mut places, *place, is_named)?;
    }
    Ok(places)
}

// Whether there is a candidate at the place whose own name is this one.
fn is_named_at(pool: &Sealed<'_>, place: CandId, name: &[u8]) -> bool
    ensures { result ≡ candidate_at_passes pool.now (has_own_name name.now) place }
{
    match pool.at(place) {
        Some(details) => name == details.name(),
        None => false,
    }
}

// The versions of these candidates, which are in the order of queries, each once and with where it
// is. Candidates with one version are adjacent.
fn grouped<'a>(
    alloc: Global,
    pool: &Sealed<'a>,
    name: &[u8],
    ordered: &Ordered<'a>,
) -> Result<Vec<PlacedVersion<'a>>, AllocError>
    // The rankings are those of all candidates with this name of their own, in the order of
    // queries.
    requires places { map (λ r. r.place) ordered.now.rankings.items
        ≡ sorted_places_passing (has_own_name name.now) pool.now.candidates }
    // By the key, two candidates have one version exactly if their versions have the same text.
    requires versions { AreInQueryOrder pool.now.candidates ordered.now.key
        ordered.now.rankings.items }
    // The versions are those of the candidates of this name, in the order of queries, each text
    // once.
    ensures versions { IfOk result (λ versions. map (λ v. v.version) versions.items
        ≡ sorted_distinct_versions_of_name pool.now.candidates name.now) }
    // Each says rightly where the candidates of this name with its version are.
    ensures places { IfOk result (λ versions.
        All (ListsPlacesOfVersion pool.now.candidates name.now) versions.items) }
{
    // A law that the proof needs; it has no effect at run time.
    order_is_total();
    let rankings = ordered.rankings.as_slice();
    let mut versions = Vec::new(alloc);
    // The candidates from `start` to `end` have one version.
    let mut start = 0;
    while start < rankings.len() {
        let end = end_of_version(rankings, ordered.key, start);
        versions.push(placed_version(alloc, pool, &rankings[start..end])?)?;
        start = end;
    }
    Ok(versions)
}

// The first index after `start` at which the version is not equal to that at `start`; the length of
// the list if there is no such index.
fn end_of_version(rankings: &[RankedOption<'_>], key: VersionKey, start: usize) -> usize
    requires { start < length rankings.now }
    ensures after { start < result }
    ensures within { result ≤ length rankings.now }
    // The rankings from `start` to the result have the same version.
    ensures one { (i : ℕ) (a b : Ranking) → start ≤ i → i < result
        → slice_get rankings.now start ≡ Some a → slice_get rankings.now i ≡ Some b
        → have_same_version key a b ≡ true }
    // At the result, if the list does not end there, the version is another one.
    ensures other { (a b : Ranking) → slice_get rankings.now start ≡ Some a
        → slice_get rankings.now result ≡ Some b → have_same_version key a b ≡ false }
{
    for end in start + 1..rankings.len() {
        if !have_same_version(&rankings[start], &rankings[end], key) {
            return end;
        }
    }
    rankings.len()
}

// Whether two candidates have the same version, by rank or by text as `key` says.
fn have_same_version(one: &RankedOption<'_>, other: &RankedOption<'_>, key: VersionKey) -> bool
    ensures { result ≡ have_same_version key one.now other.now }
{
    match key {
        VersionKey::ByRank => one.version.rank == other.version.rank,
        VersionKey::ByText => is_same_version(&one.version.version, &other.version.version),
    }
}

// Whether two versions have the same text, or both are absent.
fn is_same_version(one: &Option<Version<'_>>, other: &Option<Version<'_>>) -> bool
    ensures { result ≡ is_same_version one.now other.now }
{
    match (one, other) {
        (None, None) => true,
        (None, Some(_)) => false,
        (Some(_), None) => false,
        (Some(one), Some(other)) => one.text() == other.text(),
    }
}

// The version that all these candidates have, and where they are: whether one is installed, and
// which repositories have one.
fn placed_version<'a>(
    alloc: Global,
    pool: &Sealed<'a>,
    rankings: &[RankedOption<'a>],
) -> Result<PlacedVersion<'a>, AllocError>
    // There is a candidate, and each ranking has the place of a candidate of the pool.
    requires some { 0 < length rankings.now }
    requires within { All (λ r. r.place < length pool.now.candidates) rankings.now }
    // The version is that of the first of these candidates.
    ensures version { IfOk result (λ placed. (c : Candidate)
        → slice_get (filter_map (λ r. slice_get pool.now.candidates r.place) rankings.now) 0
        ≡ Some c → placed.version ≡ c.version) }
    // The result says rightly where these candidates are.
    ensures places { IfOk result (λ placed. ListsPlacesOf
        (filter_map (λ r. slice_get pool.now.candidates r.place) rankings.now) placed) }
{
    let mut is_installed = false;
    let mut repositories = Vec::new(alloc);
    for i in 0..rankings.len() {
        let ranking = &rankings[i];
        let details = pool.details(ranking.id);
        is_installed |= details.is_installed();
        push_repository(&mut repositories, details.repo())?;
    }
    repositories.sort()?;
    let first = &rankings[0];
    Ok(PlacedVersion {
        version: pool.details(first.id).version(),
        is_installed,
        repositories,
    })
}

// Appends the number of a repository, if there is one.
fn push_repository(repositories: &mut Vec<u64>, repository: Option<u64>) -> Result<(), AllocError>
    ensures { OnOk result
        (repositories.new.items ≡ repositories.old.items ++ option_to_list repository) }
{
    if let Some(number) = repository {
        repositories.push(number)?;
    }
    Ok(())
}
