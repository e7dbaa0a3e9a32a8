//! The ranks of the versions of options. Each long text of a version is compared with others once
//! for all the packages that share it, so that options are sorted by numbers. The rule is in
//! `docs/selection.md`, "Which selection is taken", keys 5, 8 and 9 of the table; versions are
//! compared as in `docs/formats.md`, "Versions". Identifying texts by their places only saves time,
//! as the README of this crate says.
ghost use Rattle.std.specs.Prelude.{◌≡◌, ◌<◌, ◌-◌, ℕ, List, true, All, OnOk, IfOk, IfSome, Some, length, map, slice_get};
ghost use Rattle.std.specs.List.Sorted.{IsSorted};
ghost use Rattle.std.specs.Ordering.{is_eq, on};
ghost use Rattle.candidate_core.specs.VersionTexts.{HasVersionTextFrom};
ghost use Rattle.candidate_core.specs.declared.versions.RankedVersion.{RankedVersion};
ghost use Rattle.option_ranks.specs.Ranking.{Ranking, version_order};
ghost use Rattle.option_ranks.specs.VersionRanks.{AreRankedFrom, HaveVersionsFromSameTexts, AreReadTogether, AreComparableByKey, HasRankAmong, HaveSamePlace, IsVersionAmong, IsRankAt, IsReadTogether, rank_among, version_of, version_with_rank, version_with_rank_among, versions_in, with_rank_among};
ghost use Rattle.candidate_core.specs.declared.versions.VersionKind.TheVariants as Kinds;

use crate::rank::{RankedOption, VersionKey, compare_versions};
use candidate_core::{RankedVersion, VersionKind, is_long, same_version};
use std::alloc::{AllocError, Global};
use std::cmp::Ordering;
use version_core::{Version, order_is_total};

/// Ranks the versions of all options if one of these versions is long, and returns how they are to
/// be compared. The call may reorder the options. For k options with n different texts it takes
/// time linear in k log k, and n log n comparisons of texts, or some 2n if they are in order. Short
/// texts are compared faster than ranked.
///
/// # Errors
///
/// Out of memory.
pub fn rank_long_versions<'a>(
    alloc: Global,
    options: &mut Vec<RankedOption<'a>>,
) -> Result<VersionKey, AllocError>
    // The versions under which options meet the need are equal if they refer to the same text.
    requires under { HaveVersionsFromSameTexts Kinds.Under options.old.items }
    // The own versions of candidates are equal if they refer to the same text.
    requires own { HaveVersionsFromSameTexts Kinds.Own options.old.items }
    // To compare the options after the call by this key gives the same order as to compare the
    // options before the call by their texts.
    ensures { IfOk result (λ key. AreComparableByKey key options.old.items options.new.items) }
{
    if !has_long_version(options) {
        return Ok(VersionKey::ByText);
    }
    rank_versions(alloc, options, VersionKind::Under)?;
    rank_versions(alloc, options, VersionKind::Own)?;
    Ok(VersionKey::ByRank)
}

// Whether one of the two versions of some option is long. The result only affects time.
fn has_long_version(options: &[RankedOption<'_>]) -> bool {
    for option in options {
        if is_long(&option.under.version) || is_long(&option.version.version) {
            return true;
        }
    }
    false
}

// Ranks one of the two versions of each option, the one that `kind` names, among these versions of
// all options. The call may reorder the options.
fn rank_versions<'a>(
    alloc: Global,
    options: &mut Vec<RankedOption<'a>>,
    kind: VersionKind,
) -> Result<(), AllocError>
    // Versions that refer to the same text are equal.
    requires { HaveVersionsFromSameTexts kind options.old.items }
    ensures { OnOk result (AreRankedFrom kind options.old.items options.new.items) }
{
    // A law that the proof needs; it has no effect at run time.
    order_is_total();
    // After this sort, options that refer to the same text are adjacent.
    options.sort_by(|one, other| by_place(one.version_of(kind), other.version_of(kind)))?;
    let mut versions = distinct_versions(alloc, options, kind)?;
    // Known ranks are nearly the order, and then few versions are compared.
    versions.sort_by(|one, other| one.rank.cmp(&other.rank))?;
    versions.sort_by(|one, other| compare_versions(kind, &one.version, &other.version))?;
    rank_sorted(&mut versions, kind);
    // After this sort, a version can be found by the place of its text.
    versions.sort_by(|one, other| by_place(one, other))?;
    set_ranks(options, kind, &versions);
    Ok(())
}

// The order of two versions by the places of their texts. Any order that makes versions of one
// place adjacent would do, so the contract has no clause for it.
fn by_place(one: &RankedVersion<'_>, other: &RankedVersion<'_>) -> Ordering {
    one.source
        .cmp(&other.source)
        .then(one.word.cmp(&other.word))
}

// The versions of one kind of these options. If options that refer to the same text are adjacent,
// each version is in the list once.
fn distinct_versions<'a>(
    alloc: Global,
    options: &[RankedOption<'a>],
    kind: VersionKind,
) -> Result<Vec<RankedVersion<'a>>, AllocError>
    requires { HaveVersionsFromSameTexts kind options.now }
    // The version of each option is in the list.
    ensures listed { IfOk result
        (λ versions. All (IsVersionAmong kind (versions_in versions.items)) options.now) }
    // If the options' versions have their texts where they say, so have the versions of the list.
    ensures read { IfOk result (λ versions. (text : ℕ → ℕ → List ℕ)
        → All (λ r. HasVersionTextFrom text (version_of kind r)) options.now
        → All (HasVersionTextFrom text) versions.items) }
{
    let mut versions = Vec::new(alloc);
    for i in 0..options.len() {
        if !reads_the_text_before(options, i, kind) {
            versions.push(version_to_rank(&options[i], kind))?;
        }
    }
    Ok(versions)
}

// A copy of one version of an option: of the one that `kind` names. Its rank is set to that of the
// version under which the option meets the need, which is mostly the same version; this rank is 0
// before these versions are ranked. The rank affects only the time of the sort.
fn version_to_rank<'a>(option: &RankedOption<'a>, kind: VersionKind) -> RankedVersion<'a>
    ensures { result
        ≡ version_with_rank option.entry.now.under.rank (version_of kind option.entry.now) }
{
    let ranked = option.version_of(kind);
    RankedVersion {
        version: same_version(&ranked.version),
        source: ranked.source,
        word: ranked.word,
        rank: option.under.rank,
    }
}

// Whether the version of an option, of the kind `kind`, is read from the same text as that of the
// option before it.
fn reads_the_text_before(options: &[RankedOption<'_>], i: usize, kind: VersionKind) -> bool
    requires { i < length options.now }
    // The first option of the list has none before it.
    ensures first { result ≡ true → 0 < i }
    // If the result is true, both versions refer to the same text.
    ensures same { result ≡ true → (one other : Ranking) → slice_get options.now (i - 1) ≡ Some one
        → slice_get options.now i ≡ Some other
        → HaveSamePlace (version_of kind one) (version_of kind other) }
{
    if i == 0 {
        return false;
    }
    is_same_place(options[i - 1].version_of(kind), options[i].version_of(kind))
}

// Whether two versions are read from one text: from the same word of the same source. The bytes are
// not compared.
fn is_same_place(one: &RankedVersion<'_>, other: &RankedVersion<'_>) -> bool
    ensures { result ≡ true → HaveSamePlace one.now other.now }
{
    one.version.is_some() == other.version.is_some()
        && one.source == other.source
        && one.word == other.word
}

// Gives each version of a sorted list its rank: how many versions of the list precede it. Each
// version is compared only with the one before it.
fn rank_sorted(versions: &mut Vec<RankedVersion<'_>>, kind: VersionKind)
    // The versions are sorted in the order of their kind.
    requires { IsSorted (on (λ (v : RankedVersion). v.version) (version_order kind))
        versions.old.items }
    // Each version gets its rank among all versions of the list.
    ensures { versions.new.items
        ≡ map (version_with_rank_among kind (versions_in versions.old.items)) versions.old.items }
{
    // A law that the proof needs; it has no effect at run time.
    order_is_total();
    for i in 0..versions.len() {
        let rank = if equals_the_one_before(versions, i, kind) {
            versions[i - 1].rank
        } else {
            i
        };
        set_own_rank(&mut versions[i], rank);
    }
}

// Whether a version is equal to the one before it, in the order of their kind.
fn equals_the_one_before(versions: &[RankedVersion<'_>], i: usize, kind: VersionKind) -> bool
    requires { i < length versions.now }
    // The first version of the list has none before it.
    ensures first { result ≡ true → 0 < i }
    // The result says whether the version and the one before it are equal in the order of their
    // kind.
    ensures equal { 0 < i → (one other : RankedVersion) → slice_get versions.now (i - 1) ≡ Some one
        → slice_get versions.now i ≡ Some other
        → result ≡ is_eq (version_order kind one.version other.version) }
{
    if i == 0 {
        return false;
    }
    compare_versions(kind, &versions[i - 1].version, &versions[i].version).is_eq()
}

// Sets the rank of a version.
fn set_own_rank(version: &mut RankedVersion<'_>, rank: usize)
    ensures { version.new ≡ version_with_rank rank version.old }
{
    version.rank = rank;
}

// Gives one version of each option, of the kind `kind`, its rank among the versions of a list that
// have ranks.
fn set_ranks<'a>(
    options: &mut Vec<RankedOption<'a>>,
    kind: VersionKind,
    versions: &[RankedVersion<'_>],
)
    // Each version of the list has its rank among the versions of the list.
    requires ranked { All (HasRankAmong kind (versions_in versions.now)) versions.now }
    // The versions of options and those of the list that refer to the same text are equal.
    requires alike { AreReadTogether kind versions.now options.old.items }
    // Each option gets, for its version of this kind, the rank of this version in the list.
    ensures { options.new.items
        ≡ map (with_rank_among kind (versions_in versions.now)) options.old.items }
{
    for i in 0..options.len() {
        let rank = rank_of(options[i].version_of(kind), versions, kind);
        options[i].set_rank(kind, rank);
    }
}

// The rank of a version among versions that have ranks. If none of these refers to its text, which
// never happens here, the versions that precede it are counted.
fn rank_of(version: &RankedVersion<'_>, versions: &[RankedVersion<'_>], kind: VersionKind) -> usize
    // Each version of the list has its rank among the versions of the list.
    requires ranked { All (HasRankAmong kind (versions_in versions.now)) versions.now }
    // The version equals each version of the list that refers to the same text.
    requires alike { IsReadTogether versions.now version.now }
    ensures { result ≡ rank_among kind (versions_in versions.now) version.now.version }
{
    match rank_at_place(version, versions) {
        Some(rank) => rank,
        None => rank_among(kind, versions, &version.version),
    }
}

// The rank of a version of the list that refers to the same text as `version`; None if no version
// is found. The search is by bisection, and finds such a version if the list is sorted by the
// places of texts.
fn rank_at_place(version: &RankedVersion<'_>, versions: &[RankedVersion<'_>]) -> Option<usize>
    ensures { IfSome result (IsRankAt versions.now version.now) }
{
    let at = versions.partition_point(|one| by_place(one, version).is_lt());
    if at >= versions.len() {
        return None;
    }
    if is_same_place(&versions[at], version) {
        return Some(versions[at].rank);
    }
    None
}

// How many versions of the list precede this version in the order of the kind. Each of them is
// compared with this version.
fn rank_among(
    kind: VersionKind,
    versions: &[RankedVersion<'_>],
    version: &Option<Version<'_>>,
) -> usize
    ensures { result ≡ rank_among kind (versions_in versions.now) version.now }
{
    let mut rank = 0;
    for i in 0..versions.len() {
        if compare_versions(kind, &versions[i].version, version).is_lt() {
            rank += 1;
        }
    }
    rank
}
