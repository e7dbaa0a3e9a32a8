//! The candidates with a world: which of them may be selected, which offer a name, and the options
//! of a need, best first. The rules are in `docs/selection.md`: "What there is to choose from"
//! (which candidates may be selected, and what meets a dependency), "What satisfies world", 4
//! (install-if), and "Which selection is taken" (the rank of options).
ghost use Rattle.std.specs.Prelude.{◌≡◌, ◌<◌, ◌==◌, ◌++◌, ◌∷◌, [], map, length, slice_get, All, Some, IfOk, OnOk, filter, not, if◌then◌else◌, false};
ghost use Rattle.dep_core.specs.Meets.{dependency};
ghost use Rattle.option_ranks.specs.candidate_core.Candidates.{is_eligible_with_positive_install_if, is_eligible};
ghost use Rattle.option_ranks.specs.candidate_core.CandidateList.{IsCandidateList};
ghost use Rattle.option_ranks.specs.candidate_core.Options.{is_eligible_for_need, places_offering, options_for, places_passing_counted_from};
ghost use Rattle.option_ranks.specs.candidate_core.Packages.{candidates_of_packages};
ghost use Rattle.option_ranks.specs.candidate_core.Rank.{candidate_at, candidate_at_passes, is_kept_installed, is_pinned, is_pinned_at, selection_problem_from_parts};
ghost use Rattle.option_ranks.specs.Ranking.{IsRankingIn};
ghost use Rattle.option_ranks.specs.candidate_core.Values.{candidate_value, names_upgraded_by, need_of_ref, need_of_owned};
ghost use Rattle.pool_core.specs.PoolMatches.{AreMatchesInPool, AreMatchesOfPackages, places_fitting};
ghost use Rattle.option_ranks.specs.VersionRanks.{HaveVersionsFromSameTexts, HasVersionTextsOfSources};
ghost use Rattle.option_ranks.specs.candidate_core.declared.versions.VersionKind.TheVariants as Kinds;

use crate::keeping::kept_marks;
use crate::laws::rank_is_total;
use crate::world_marks::marks_by_world;
use dep_core::World;
use option_ranks::{
    CandId, Candidate, CandidateList, Details, KnownMatches, Need, NeedRef, Options, Packages,
    RankedOption, Table, Upgrade, rank_long_versions,
};
use std::alloc::{AllocError, Global};
use std::marker::Model;
use version_core::order_is_total;

/// The candidates with a world. What is often needed of candidates is computed once, as marks. Each
/// list of marks has one mark for each candidate, in the order of the list of candidates.
pub struct Sealed<'a> {
    /// The packages that the candidates are.
    packages: Packages<'a>,
    /// For each name, the places of the candidates that offer it.
    table: Table<'a>,
    /// The world that a selection is to satisfy.
    world: &'a World,
    /// The names that the command upgrades.
    upgrade: Upgrade<'a>,
    /// For each candidate, whether it may be selected.
    eligible: Vec<bool>,
    /// For each candidate, whether world pins the candidate's name to the candidate's tag.
    pinned: Vec<bool>,
    /// For each candidate, whether it is installed and the command does not upgrade its name.
    kept: Vec<bool>,
    /// The places of the candidates whose install-if can apply, in rising order.
    install_ifs: Vec<CandId>,
}

/// Drops the parts in one call, so that a function that gives up has one drop and not many.
impl Drop for Sealed<'_> {
    fn drop(self) {
        let Sealed {
            packages: _,
            table: _,
            world: _,
            upgrade: _,
            eligible: _,
            pinned: _,
            kept: _,
            install_ifs: _,
        } = self;
    }
}

impl<'a> Model for Sealed<'a> {
    ghost use Rattle.std.specs.Coded.{codes};
    ghost use Rattle.option_ranks.specs.candidate_core.PlainCode.{plain_code};
    ghost use Rattle.std.specs.Prelude.{◌≡◌, map};
    ghost use Rattle.option_ranks.specs.candidate_core.Candidates.{is_eligible_with_positive_install_if, is_eligible};
    ghost use Rattle.option_ranks.specs.candidate_core.Options.{places_passing_counted_from};
    ghost use Rattle.option_ranks.specs.candidate_core.Packages.{candidates_of_packages};
    ghost use Rattle.option_ranks.specs.candidate_core.Rank.{SelectionProblem, is_kept_installed, is_pinned, selection_problem_from_parts};
    ghost use Rattle.option_ranks.specs.candidate_core.Table.{HasPlacesOfEachName};
    ghost use Rattle.option_ranks.specs.candidate_core.Values.{names_upgraded_by};

    ghost Value = { SelectionProblem };

    // Pools with equal codes are equal (`Coded`).
    ghost coded = { Prim.hlevel (codes, plain_code) };

    // The value has the candidates, world, and the names to upgrade; all other fields follow from
    // these.
    ghost view = { λ s.
        selection_problem_from_parts (candidates_of_packages s.packages) s.world.now
        (names_upgraded_by s.upgrade) };

    // The table, the marks and the list of install-ifs are those of the candidates under this
    // world.
    ghost invariant = { λ s. HasPlacesOfEachName s.table (candidates_of_packages s.packages)
        × (s.eligible.items ≡ map (is_eligible s.world.now) (candidates_of_packages s.packages))
        × (s.pinned.items ≡ map (is_pinned s.world.now) (candidates_of_packages s.packages))
        × (s.kept.items ≡ map (is_kept_installed (names_upgraded_by s.upgrade))
        (candidates_of_packages s.packages))
        × (s.install_ifs.items
        ≡ places_passing_counted_from 0 (is_eligible_with_positive_install_if s.world.now)
        (candidates_of_packages s.packages)) };
}

impl<'a> Sealed<'a> {
    /// How many candidates there are.
    pub fn len(&self) -> usize
        ensures { result ≡ length self.now.candidates }
    {
        self.packages.len()
    }

    /// Whether there is no candidate.
    pub fn is_empty(&self) -> bool
        ensures { result ≡ (length self.now.candidates == 0) }
    {
        self.packages.len() == 0
    }

    /// A candidate, with all of its information in its index, or in the database.
    pub fn candidate(&self, id: CandId) -> Candidate<'a>
        requires { id < length self.now.candidates }
        ensures { slice_get self.now.candidates id ≡ Some (candidate_value result) }
    {
        self.details(id).candidate()
    }

    /// The details of the candidate at a place.
    pub fn details(&self, id: CandId) -> Details<'a>
        requires { id < length self.now.candidates }
        ensures { slice_get self.now.candidates id ≡ Some result }
    {
        self.packages.get(id.place as usize)
    }

    /// The details of the candidate at a place, if there is one.
    pub fn at(&self, id: CandId) -> Option<Details<'a>>
        ensures { result ≡ candidate_at self.now id }
    {
        let place = id.place as usize;
        if place >= self.packages.len() {
            return None;
        }
        Some(self.packages.get(place))
    }

    /// The packages that the candidates are, in the order of their places.
    pub fn packages(&self) -> &Packages<'a>
        ensures { candidates_of_packages result.now ≡ self.now.candidates }
    {
        &self.packages
    }

    /// The places of the candidates that have the name or an entry of provides of that name without
    /// conflict bit, in rising order and each once.
    pub fn offers(&self, name: &[u8]) -> &[CandId]
        ensures { result.now ≡ places_offering name.now self.now.candidates }
    {
        self.table.get(name)
    }

    /// The places of the candidates whose install-if can apply, in rising order.
    pub fn install_ifs(&self) -> &[CandId]
        ensures { result.now
            ≡ places_passing_counted_from 0
            (is_eligible_with_positive_install_if self.now.world) self.now.candidates }
    {
        self.install_ifs.as_slice()
    }

    /// The candidates that may be selected and meet the need, best first. For k candidates that
    /// offer the need's name, it takes time linear in k log k.
    pub fn options(&self, alloc: Global, need: &Need<'_>) -> Result<Options, AllocError>
        ensures { IfOk result (λ options. options ≡ options_for self.now (need_of_owned need.now)) }
    {
        match need {
            Need::Entry(dep) => self.options_for(alloc, &NeedRef::Entry(dep)),
            Need::Named(name) => self.options_for(alloc, &NeedRef::Named(name)),
        }
    }

    /// The options of a need whose dependency is borrowed: the candidates that may be selected and
    /// meet the need, best first.
    pub fn options_for(&self, alloc: Global, need: &NeedRef<'_>) -> Result<Options, AllocError>
        ensures { IfOk result (λ options. options ≡ options_for self.now (need_of_ref need.now)) }
    {
        self.options_among(alloc, need, &self.packages)
    }

    // The options of a need. `packages` are those of the pool; they are an argument of their own
    // because the proof needs that the texts of all versions are read from one value.
    fn options_among(
        &self,
        alloc: Global,
        need: &NeedRef<'_>,
        packages: &Packages<'a>,
    ) -> Result<Options, AllocError>
        requires { candidates_of_packages packages.now ≡ self.now.candidates }
        ensures { IfOk result (λ options. options ≡ options_for self.now (need_of_ref need.now)) }
    {
        let mut known = KnownMatches::new(alloc);
        let ids = self.fitting(alloc, need, packages, &mut known)?;
        // A list of at most one option is in order already.
        if ids.len() < 2 {
            return Ok(Options::of(ids));
        }
        self.ranked(alloc, need, &ids, packages, &known)
    }

    // The options of a need, best first; `ids` are the places of these options in any order. The
    // keys of each option are read once, and a long text of a version is compared once for all
    // options that share it.
    fn ranked(
        &self,
        alloc: Global,
        need: &NeedRef<'_>,
        ids: &[CandId],
        packages: &Packages<'a>,
        known: &KnownMatches,
    ) -> Result<Options, AllocError>
        // The places are those of all candidates that may be selected and meet the need.
        requires those { ids.now ≡ places_fitting self.now (need_of_ref need.now) }
        // The remembered results are right for this need and these packages.
        requires matches { AreMatchesInPool self.now (need_of_ref need.now) packages.now known.now }
        ensures { IfOk result (λ options. options ≡ options_for self.now (need_of_ref need.now)) }
    {
        // Laws that the proof needs; they have no effect at run time.
        rank_is_total();
        order_is_total();
        let mut rankings = self.rankings(alloc, need, ids, packages, known)?;
        let key = rank_long_versions(alloc, &mut rankings)?;
        rankings.sort_by(|one, other| one.compare(other, key))?;
        let ids = places_of(alloc, &rankings)?;
        Ok(Options::of(ids))
    }

    // The keys by which the candidates at the places `ids` are ranked, in the order of these
    // places.
    fn rankings(
        &self,
        alloc: Global,
        need: &NeedRef<'_>,
        ids: &[CandId],
        packages: &Packages<'a>,
        known: &KnownMatches,
    ) -> Result<Vec<RankedOption<'a>>, AllocError>
        // The places are those of all candidates that may be selected and meet the need.
        requires those { ids.now ≡ places_fitting self.now (need_of_ref need.now) }
        // The remembered results are right for this need and these packages.
        requires matches { AreMatchesInPool self.now (need_of_ref need.now) packages.now known.now }
        // Each ranking has the keys of the candidate at its place, for this need.
        ensures each { IfOk result (λ rankings.
            All (IsRankingIn self.now (need_of_ref need.now)) rankings.items) }
        ensures places { IfOk result (λ rankings. map (λ r. r.place) rankings.items ≡ ids.now) }
        // The versions under which candidates meet the need are equal if they refer to the same
        // text.
        ensures under { IfOk result
            (λ rankings. HaveVersionsFromSameTexts Kinds.Under rankings.items) }
        // The own versions of candidates are equal if they refer to the same text.
        ensures version { IfOk result
            (λ rankings. HaveVersionsFromSameTexts Kinds.Own rankings.items) }
    {
        let mut rankings = Vec::with_capacity(alloc, ids.len())?;
        for id in ids {
            rankings.push(self.ranking(need, *id, packages, known))?;
        }
        Ok(rankings)
    }

    // The keys by which the candidate at a place is ranked for a need. The candidate's two versions
    // get the rank 0 here, until the versions of all options are ranked.
    fn ranking(
        &self,
        need: &NeedRef<'_>,
        id: CandId,
        packages: &Packages<'a>,
        known: &KnownMatches,
    ) -> RankedOption<'a>
        requires within { id < length self.now.candidates }
        // The remembered results are right for this need and these packages.
        requires matches { AreMatchesInPool self.now (need_of_ref need.now) packages.now known.now }
        ensures place { result.place ≡ id }
        ensures ranking { IsRankingIn self.now (need_of_ref need.now) result }
        // Both versions are the texts at the places that are stored with them.
        ensures texts { HasVersionTextsOfSources packages.now.sources.items result }
    {
        let place = id.place as usize;
        let details = self.details(id);
        RankedOption {
            pinned: self.is_pinned(id),
            untagged: details.is_untagged(),
            named: need.name() == details.name(),
            kept: self.is_kept(id),
            under: packages.version_meeting_need(place, need, known),
            priority: details.priority(),
            name: details.name(),
            version: packages.version(place),
            repo: details.repo(),
            id,
        }
    }

    // The places of the candidates that may be selected and meet a need, in rising order. Results
    // for long versions are remembered.
    fn fitting(
        &self,
        alloc: Global,
        need: &NeedRef<'_>,
        packages: &Packages<'a>,
        known: &mut KnownMatches,
    ) -> Result<Vec<CandId>, AllocError>
        // The remembered results are right for this need and these packages.
        requires { AreMatchesInPool self.now (need_of_ref need.now) packages.now known.old }
        // The result has the places of all candidates that may be selected and meet the need.
        ensures places { IfOk result (λ ids. ids.items
            ≡ places_fitting self.now (need_of_ref need.now)) }
        // The results that are remembered after the call are right for this need.
        ensures known { IfOk result (λ _.
            AreMatchesOfPackages packages.now (need_of_ref need.now) known.new) }
    {
        let places = self.offers(need.name());
        let ids = self.fitting_among(alloc, need, places, packages, known)?;
        Ok(ids)
    }

    // Those of the places `places` whose candidates may be selected and meet the need, in the same
    // order.
    fn fitting_among(
        &self,
        alloc: Global,
        need: &NeedRef<'_>,
        places: &[CandId],
        packages: &Packages<'a>,
        known: &mut KnownMatches,
    ) -> Result<Vec<CandId>, AllocError>
        // The remembered results are right for this need and these packages.
        requires { AreMatchesInPool self.now (need_of_ref need.now) packages.now known.old }
        // The result has the places in `places` whose candidates may be selected and meet the need.
        ensures places { IfOk result (λ ids. ids.items
            ≡ filter (λ id. candidate_at_passes self.now (is_eligible_for_need self.now
            (need_of_ref need.now)) id) places.now) }
        // The results that are remembered after the call are right for this need.
        ensures known { IfOk result (λ _.
            AreMatchesOfPackages packages.now (need_of_ref need.now) known.new) }
    {
        let mut ids = Vec::new(alloc);
        for id in places {
            let fits = self.fits(need, *id, packages, known)?;
            push_if_fitting(&mut ids, *id, fits)?;
        }
        Ok(ids)
    }

    // Whether the candidate at a place may be selected and meets a need. A long version that many
    // candidates share is compared once.
    fn fits(
        &self,
        need: &NeedRef<'_>,
        id: CandId,
        packages: &Packages<'a>,
        known: &mut KnownMatches,
    ) -> Result<bool, AllocError>
        // The remembered results are right for this need and these packages.
        requires { AreMatchesInPool self.now (need_of_ref need.now) packages.now known.old }
        // The answer is whether the candidate may be selected and meets the need.
        ensures fits { IfOk result (λ fits. fits
            ≡ candidate_at_passes self.now (is_eligible_for_need self.now
            (need_of_ref need.now)) id) }
        // The results that are remembered after the call are right for this need.
        ensures known { IfOk result (λ _.
            AreMatchesOfPackages packages.now (need_of_ref need.now) known.new) }
    {
        let place = id.place as usize;
        if place >= packages.len() {
            return Ok(false);
        }
        if !self.eligible[place] {
            return Ok(false);
        }
        if !need.has_long_version() {
            return Ok(
                packages
                    .get(place)
                    .meets_dependency_or_has_package_name(need),
            );
        }
        packages.meets_dependency_or_has_package_name(place, need, known)
    }

    // Whether world pins the name of the candidate at a place to its tag.
    fn is_pinned(&self, id: CandId) -> bool
        ensures { result ≡ is_pinned_at self.now id }
    {
        let place = id.place as usize;
        if place >= self.pinned.len() {
            return false;
        }
        self.pinned[place]
    }

    // Whether the candidate at a place is installed and the command does not upgrade its name.
    fn is_kept(&self, id: CandId) -> bool
        ensures { result ≡ candidate_at_passes self.now (is_kept_installed self.now.upgraded) id }
    {
        let place = id.place as usize;
        if place >= self.kept.len() {
            return false;
        }
        self.kept[place]
    }
}

// Appends the place `id` to the list if `fits` is true.
fn push_if_fitting(ids: &mut Vec<CandId>, id: CandId, fits: bool) -> Result<(), AllocError>
    ensures { OnOk result
        (ids.new.items ≡ ids.old.items ++ (if fits then id ∷ [] else [])) }
{
    if fits {
        ids.push(id)?;
    }
    Ok(())
}

// The places in the list of candidates of these ranked options, in the same order.
fn places_of(alloc: Global, rankings: &[RankedOption<'_>]) -> Result<Vec<CandId>, AllocError>
    ensures { IfOk result (λ ids. ids.items ≡ map (λ r. r.place) rankings.now) }
{
    rankings.iter().map(|ranking| ranking.id).collect(alloc)
}

/// Joins a list of candidates to a world and to the names that the command upgrades.
pub(crate) fn seal_list<'a>(
    alloc: Global,
    list: CandidateList<'a>,
    world: &'a World,
    upgrade: Upgrade<'a>,
) -> Result<Sealed<'a>, AllocError>
    requires { IsCandidateList list }
    // The pool has these candidates, this world and these names to upgrade.
    ensures { IfOk result (λ sealed. sealed
        ≡ selection_problem_from_parts (candidates_of_packages list.entry.packages) world.entry.now
        (names_upgraded_by upgrade.entry)) }
{
    let marks = marks_by_world(alloc, &list, world)?;
    let kept = kept_marks(alloc, &list.packages, upgrade)?;
    Ok(Sealed {
        packages: list.packages,
        table: list.table,
        world,
        upgrade,
        eligible: marks.eligible,
        pinned: marks.pinned,
        kept,
        install_ifs: marks.install_ifs,
    })
}
