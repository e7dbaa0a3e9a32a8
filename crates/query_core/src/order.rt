//! The order in which a query prints candidates: by name, then the greater version, then the text
//! of the version, then the place in the list of candidates. The rule is in `docs/commands.md`,
//! "Queries".
ghost use Rattle.pool_core.specs.candidate_core.declared.versions.VersionKind.TheVariants as Kinds;
ghost use Rattle.pool_core.specs.candidate_core.Packages.{candidates_of_packages};
ghost use Rattle.base_core.specs.Sorted.{sorted_by};
ghost use Rattle.pool_core.specs.option_ranks.VersionRanks.{HaveVersionsFromSameTexts, HasVersionTextsOfSources};
ghost use Rattle.query_core.specs.Order.{candidate_places_cmp};
ghost use Rattle.query_core.specs.QueryRanking.{AreInQueryOrder, IsQueryRanking};
ghost use Rattle.std.specs.Prelude.{◌≡◌, ◌<◌, All, IfOk, length, map};

use pool_core::{
    CandId, Packages, RankedOption, RankedVersion, Sealed, VersionKey, rank_long_versions,
};
use std::alloc::{AllocError, Global};
use version_core::order_is_total;

/// Candidates in the order of queries, as the keys by which they were ordered.
#[derive(Drop)]
pub(crate) struct Ordered<'a> {
    /// The keys of each candidate, with its place, in the order of queries.
    pub(crate) rankings: Vec<RankedOption<'a>>,
    /// How the versions of these candidates are compared: by rank or by text.
    pub(crate) key: VersionKey,
}

/// Puts the candidates at these places into the order of queries. A long version that many
/// candidates share is compared once.
pub(crate) fn in_order<'a>(
    alloc: Global,
    pool: &Sealed<'a>,
    places: &[CandId],
) -> Result<Ordered<'a>, AllocError>
    // Each place is that of a candidate of the pool.
    requires { All (λ place. place < length pool.now.candidates) places.now }
    ensures places { IfOk result (λ ordered. map (λ r. r.place) ordered.rankings.items
        ≡ sorted_by (candidate_places_cmp pool.now.candidates) places.now) }
    // By this key, two candidates have one version exactly if their versions have the same text.
    ensures versions { IfOk result (λ ordered.
        AreInQueryOrder pool.now.candidates ordered.key ordered.rankings.items) }
{
    // A law that the proof needs; it has no effect at run time.
    order_is_total();
    let packages = pool.packages();
    let mut rankings = rankings(alloc, pool, packages, places)?;
    let key = rank_long_versions(alloc, &mut rankings)?;
    rankings.sort_by(|one, other| one.compare(other, key))?;
    Ok(Ordered { rankings, key })
}

// The keys of the candidates at these places, in the order of the places.
fn rankings<'a>(
    alloc: Global,
    pool: &Sealed<'a>,
    packages: &Packages<'a>,
    places: &[CandId],
) -> Result<Vec<RankedOption<'a>>, AllocError>
    requires within { All (λ place. place < length pool.now.candidates) places.now }
    // The packages are those of the pool.
    requires own { candidates_of_packages packages.now ≡ pool.now.candidates }
    // Each ranking has the keys of the candidate at its place.
    ensures each { IfOk result (λ rankings.
        All (IsQueryRanking pool.now.candidates) rankings.items) }
    ensures places { IfOk result (λ rankings. map (λ r. r.place) rankings.items ≡ places.now) }
    // Versions that refer to the same text are equal.
    ensures under { IfOk result (λ rankings. HaveVersionsFromSameTexts Kinds.Under rankings.items) }
    ensures version { IfOk result (λ rankings. HaveVersionsFromSameTexts Kinds.Own rankings.items) }
{
    let mut rankings = Vec::with_capacity(alloc, places.len())?;
    for place in places {
        rankings.push(ranking(pool, packages, *place))?;
    }
    Ok(rankings)
}

// The keys of the candidate at a place. Queries order by name, version and place alone: so in all
// other keys of options, all candidates have the same value.
fn ranking<'a>(pool: &Sealed<'a>, packages: &Packages<'a>, id: CandId) -> RankedOption<'a>
    requires within { id < length pool.now.candidates }
    // The packages are those of the pool.
    requires own { candidates_of_packages packages.now ≡ pool.now.candidates }
    ensures place { result.place ≡ id }
    ensures ranking { IsQueryRanking pool.now.candidates result }
    // Both versions are the texts at the places that are stored with them.
    ensures texts { HasVersionTextsOfSources packages.now.sources.items result }
{
    RankedOption {
        pinned: false,
        untagged: false,
        named: false,
        kept: false,
        under: no_version(),
        priority: 0,
        name: pool.details(id).name(),
        version: packages.version(id.place as usize),
        repo: None,
        id,
    }
}

// An absent version, for the key in which all candidates are equal in the order of queries.
fn no_version<'a>() -> RankedVersion<'a>
    ensures { result.version ≡ None }
{
    RankedVersion {
        version: None,
        source: 0,
        word: 0,
        rank: 0,
    }
}
