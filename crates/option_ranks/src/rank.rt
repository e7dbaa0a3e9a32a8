//! Which of two options of a need is preferred. Each key of an option is read once, versions are
//! compared by their texts or their ranks, and the first key that differs decides. The rule is in
//! `docs/selection.md`, "Which selection is taken", the table of eleven keys. Keys 8 and 9, the
//! candidate's own version and then the version's text, are one here: the order of own versions
//! combines both, and so does their rank.
ghost use Rattle.std.specs.Prelude.{◌≡◌};
ghost use Rattle.std.specs.Option.{option_cmp};
ghost use Rattle.std.specs.Ordering.{bool_cmp, flip_args, then_cmp};
ghost use Rattle.candidate_core.specs.Rank.{bytes_cmp, earlier_repository_first_cmp, greater_version_first_cmp};
ghost use Rattle.option_ranks.specs.Ranking.{candidate_ranking_cmp, merit_ranking_cmp, name_ranking_cmp, priority_ranking_cmp, quality_ranking_cmp, ranking_cmp, repository_ranking_cmp, unpinned_ranking_cmp, version_key_cmp, version_order};
ghost use Rattle.option_ranks.specs.VersionRanks.{version_of, with_version_rank};

use candidate_core::{CandId, RankedVersion, VersionKind};
use std::cmp::Ordering;
use std::marker::Model;
use version_core::Version;

/// By what the versions of two options are compared.
#[derive(Clone, Copy)]
pub enum VersionKey {
    /// By their ranks; both versions of each option have been ranked.
    ByRank,
    /// By the versions themselves, as they were read.
    ByText,
}

/// The keys by which an option is ranked, in their order (*Ranking*).
#[derive(Drop)]
pub struct RankedOption<'a> {
    /// Key 1: whether world pins the candidate's name to its tag.
    pub pinned: bool,
    /// Key 2: whether the candidate is from a repository without tag, or from none.
    pub untagged: bool,
    /// Key 3: whether the candidate has the name that is needed.
    pub named: bool,
    /// Key 4: whether the candidate is installed, and the command does not upgrade its name.
    pub kept: bool,
    /// Key 5: the version under which the candidate meets the need.
    pub under: RankedVersion<'a>,
    /// Key 6: the provider-priority.
    pub priority: u64,
    /// Key 7: the candidate's name.
    pub name: &'a [u8],
    /// Keys 8 and 9: the candidate's own version.
    pub version: RankedVersion<'a>,
    /// Key 10: the repository, counted from 1; None for an installed package that no index has.
    pub repo: Option<u64>,
    /// Key 11: the place in the list of candidates.
    pub id: CandId,
}

impl<'a> Model for RankedOption<'a> {
    ghost use Rattle.option_ranks.specs.Ranking.{Ranking, ranking_from_parts};

    ghost Value = { Ranking };

    // The eleven keys as one value.
    ghost view = { λ r. ranking_from_parts r.pinned r.untagged r.named r.kept r.under r.priority r.name.now
        r.version r.repo r.id };
}

impl<'a> RankedOption<'a> {
    /// One of the two versions of the option: the one that `kind` names.
    pub(crate) fn version_of(&self, kind: VersionKind) -> &RankedVersion<'a>
        ensures { result.now ≡ version_of kind self.now }
    {
        match kind {
            VersionKind::Under => &self.under,
            VersionKind::Own => &self.version,
        }
    }

    /// Sets the rank of one of the two versions of the option: of the one that `kind` names.
    pub(crate) fn set_rank(&mut self, kind: VersionKind, rank: usize)
        ensures { self.new ≡ with_version_rank kind rank self.old }
    {
        match kind {
            VersionKind::Under => self.under.rank = rank,
            VersionKind::Own => self.version.rank = rank,
        }
    }

    /// The order of two options by all eleven keys.
    #[tactic(auto, unfolding(crate::specs::Ranking::ranking_cmp))]
    pub fn compare(&self, other: &RankedOption<'_>, key: VersionKey) -> Ordering
        ensures { result ≡ ranking_cmp key self.now other.now }
    {
        match self.by_candidate(other, key) {
            Ordering::Less => Ordering::Less,
            Ordering::Greater => Ordering::Greater,
            Ordering::Equal => self.id.place.cmp(&other.id.place),
        }
    }

    // The order of two options by keys 1 to 10, which are all but the place.
    fn by_candidate(&self, other: &RankedOption<'_>, key: VersionKey) -> Ordering
        ensures { result ≡ candidate_ranking_cmp key self.now other.now }
    {
        match truth_first(self.pinned, other.pinned) {
            Ordering::Less => Ordering::Less,
            Ordering::Greater => Ordering::Greater,
            Ordering::Equal => self.by_unpinned(other, key),
        }
    }

    // The order of two options by keys 2 to 10. By key 1 they are equal.
    fn by_unpinned(&self, other: &RankedOption<'_>, key: VersionKey) -> Ordering
        ensures { result ≡ unpinned_ranking_cmp key self.now other.now }
    {
        match self.by_quality(other) {
            Ordering::Less => Ordering::Less,
            Ordering::Greater => Ordering::Greater,
            Ordering::Equal => self.by_merit_and_repo(other, key),
        }
    }

    // The order of two options by keys 2 to 4: first those without tag, then those with the needed
    // name, then those that are installed and kept.
    fn by_quality(&self, other: &RankedOption<'_>) -> Ordering
        ensures { result ≡ quality_ranking_cmp self.now other.now }
    {
        let untagged = truth_first(self.untagged, other.untagged);
        let named = truth_first(self.named, other.named);
        let kept = truth_first(self.kept, other.kept);
        untagged.then(named.then(kept))
    }

    // The order of two options by keys 5 to 10, from the version under which the need is met to the
    // repository.
    fn by_merit_and_repo(&self, other: &RankedOption<'_>, key: VersionKey) -> Ordering
        ensures { result
            ≡ then_cmp (merit_ranking_cmp key) repository_ranking_cmp self.now other.now }
    {
        match self.by_merit(other, key) {
            Ordering::Less => Ordering::Less,
            Ordering::Greater => Ordering::Greater,
            Ordering::Equal => by_repo(self.repo, other.repo),
        }
    }

    // The order of two options by keys 5 to 9, of which the first is the version under which the
    // need is met.
    fn by_merit(&self, other: &RankedOption<'_>, key: VersionKey) -> Ordering
        ensures { result ≡ merit_ranking_cmp key self.now other.now }
    {
        match by_version_key(key, VersionKind::Under, &self.under, &other.under) {
            Ordering::Less => Ordering::Less,
            Ordering::Greater => Ordering::Greater,
            Ordering::Equal => self.by_priority(other, key),
        }
    }

    // The order of two options by keys 6 to 9, of which the first is the priority: the greater is
    // first.
    fn by_priority(&self, other: &RankedOption<'_>, key: VersionKey) -> Ordering
        ensures { result ≡ priority_ranking_cmp key self.now other.now }
    {
        match other.priority.cmp(&self.priority) {
            Ordering::Less => Ordering::Less,
            Ordering::Greater => Ordering::Greater,
            Ordering::Equal => self.by_name(other, key),
        }
    }

    // The order of two options by keys 7 to 9: the name that is less in byte order is first, then
    // the greater own version. Of equal versions, the text that is less in byte order is first.
    fn by_name(&self, other: &RankedOption<'_>, key: VersionKey) -> Ordering
        ensures { result ≡ name_ranking_cmp key self.now other.now }
    {
        match self.name.cmp(other.name) {
            Ordering::Less => Ordering::Less,
            Ordering::Greater => Ordering::Greater,
            Ordering::Equal => {
                by_version_key(key, VersionKind::Own, &self.version, &other.version)
            }
        }
    }
}

// The order of two options by one test, which gives `one` for the first option and `other` for the
// second: an option that passes the test is first.
fn truth_first(one: bool, other: bool) -> Ordering
    ensures { result ≡ flip_args bool_cmp one other }
{
    other.cmp(&one)
}

// The order of two versions of one kind: by their ranks, or by the versions themselves, as `key`
// says.
fn by_version_key(
    key: VersionKey,
    kind: VersionKind,
    one: &RankedVersion<'_>,
    other: &RankedVersion<'_>,
) -> Ordering
    ensures { result ≡ version_key_cmp key kind one.now other.now }
{
    match key {
        VersionKey::ByRank => one.rank.cmp(&other.rank),
        VersionKey::ByText => compare_versions(kind, &one.version, &other.version),
    }
}

/// The order of two versions of one kind: the greater is first. Equal own versions of candidates
/// (`Own`) are ordered by the bytes of their texts. Equal versions under which candidates meet a
/// need (`Under`) give `Equal`, whatever their texts are.
pub(crate) fn compare_versions(
    kind: VersionKind,
    one: &Option<Version<'_>>,
    other: &Option<Version<'_>>,
) -> Ordering
    ensures { result ≡ version_order kind one.now other.now }
{
    match kind {
        VersionKind::Under => by_version(one, other),
        VersionKind::Own => by_version_and_text(one, other),
    }
}

// The order of two versions: the greater is first. Equal versions are ordered by the bytes of their
// texts, which are compared only then, since they may be long.
fn by_version_and_text(one: &Option<Version<'_>>, other: &Option<Version<'_>>) -> Ordering
    ensures { result ≡ then_cmp greater_version_first_cmp (option_cmp bytes_cmp) one.now other.now }
{
    match by_version(one, other) {
        Ordering::Less => Ordering::Less,
        Ordering::Greater => Ordering::Greater,
        Ordering::Equal => by_version_text(one, other),
    }
}

// The order of two versions: the greater is first, and an absent one last.
fn by_version(one: &Option<Version<'_>>, other: &Option<Version<'_>>) -> Ordering
    ensures { result ≡ greater_version_first_cmp one.now other.now }
{
    match (one, other) {
        (None, None) => Ordering::Equal,
        (None, Some(_)) => Ordering::Greater,
        (Some(_), None) => Ordering::Less,
        (Some(one), Some(other)) => other.compare(one),
    }
}

// The order of two versions by the bytes of their texts; an absent one is first.
fn by_version_text(one: &Option<Version<'_>>, other: &Option<Version<'_>>) -> Ordering
    ensures { result ≡ option_cmp bytes_cmp one.now other.now }
{
    match (one, other) {
        (None, None) => Ordering::Equal,
        (None, Some(_)) => Ordering::Less,
        (Some(_), None) => Ordering::Greater,
        (Some(one), Some(other)) => one.text().cmp(&other.text()),
    }
}

// The order of two repositories: the smaller number is first, and an absent repository last.
fn by_repo(one: Option<u64>, other: Option<u64>) -> Ordering
    ensures { result ≡ earlier_repository_first_cmp one other }
{
    match (one, other) {
        (None, None) => Ordering::Equal,
        (None, Some(_)) => Ordering::Greater,
        (Some(_), None) => Ordering::Less,
        (Some(one), Some(other)) => one.cmp(&other),
    }
}
