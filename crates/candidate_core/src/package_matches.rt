//! Which long versions the dependencies of packages accept, as far as they were compared. Many
//! packages may share the text of a version, and many dependencies too. So two long texts are
//! compared once while the results are remembered. What a dependency accepts is defined in
//! `docs/selection.md`, "What there is to choose from". Remembering the results only saves time, as
//! the README of this crate says.
ghost use Rattle.std.specs.Prelude.{◌≡◌, ◌<◌, ℕ, List, IfOk, OnOk, Some, length, slice_get};
ghost use Rattle.dep_core.specs.Dependency.{Dependency};
ghost use Rattle.dep_core.specs.Meets.{dependency};
ghost use Rattle.candidate_core.specs.Candidates.{Candidate, meets_dependency};
ghost use Rattle.candidate_core.specs.Matches.{AreRememberedMatchesOf};
ghost use Rattle.candidate_core.specs.PackageMatches.{AreMatchesAmong, AreMatchesByVersion, IsDepOfPackageAt};
ghost use Rattle.candidate_core.specs.Packages.{candidates_of_packages};
ghost use Rattle.candidate_core.specs.VersionTexts.{source_text};

use crate::matches::{KnownMatches, is_long};
use crate::need::NeedRef;
use crate::packages::Packages;
use crate::versions::VersionPlace;
use dep_core::Dep;
use std::alloc::{AllocError, Global};
use std::collections::BTreeMap;

/// A dependency of a package, and its place in the package.
#[derive(Clone, Copy)]
pub struct PackageDep<'d> {
    /// The dependency.
    pub dep: &'d Dep<'d>,
    /// The place of the package that has the dependency, counted from 0.
    pub package: usize,
    /// The index of the dependency among those of the package, counted from 0.
    pub index: usize,
}

/// Remembered results: which long versions the dependencies of packages accept.
#[derive(Drop)]
pub struct PackageMatches<'p> {
    /// The allocator.
    alloc: Global,
    /// The packages whose dependencies and versions are compared.
    pub packages: &'p Packages<'p>,
    /// The results for each version in a dependency: by the index of the version's source, the word
    /// of its text there, and the match bits of the operator.
    by_version: BTreeMap<(u32, u32, u8), KnownMatches>,
}

impl<'p> PackageMatches<'p> {
    /// No results yet for the dependencies of some packages.
    pub fn new(alloc: Global, packages: &'p Packages<'p>) -> PackageMatches<'p>
        // Without results, none is wrong.
        ensures { AreMatchesAmong (candidates_of_packages packages.entry.now) result }
    {
        PackageMatches {
            alloc,
            packages,
            by_version: BTreeMap::new(alloc),
        }
    }

    /// Whether the package at an index, counted from 0, meets a dependency of another by its own
    /// name and version, or by an entry of its provides. It does not matter whether the dependency
    /// is a conflict. Results for long versions are remembered, in memory linear in the number of
    /// pairs of long texts that were compared.
    ///
    /// # Errors
    ///
    /// Out of memory.
    pub fn meets(&mut self, place: usize, held: &PackageDep<'_>) -> Result<bool, AllocError>
        requires within { place < length (candidates_of_packages self.old.packages.now) }
        // The dependency is that of the package at the stored place, with the stored index.
        requires held { IsDepOfPackageAt (candidates_of_packages self.old.packages.now) held.now }
        // The remembered results are right for these packages, before the call and after it.
        requires matches { AreMatchesAmong (candidates_of_packages self.old.packages.now)
            self.old }
        // The result says whether the candidate at the place meets the dependency.
        ensures meets { IfOk result (λ meets. (c : Candidate)
            → slice_get (candidates_of_packages self.old.packages.now) place ≡ Some c
            → meets ≡ meets_dependency (dependency held.now.dep.now) c) }
        ensures matches { OnOk result (AreMatchesAmong
            (candidates_of_packages self.old.packages.now) self.new) }
    {
        let packages = self.packages;
        if !is_long(&held.dep.version) {
            return Ok(packages.get(place).meets(held.dep));
        }
        match packages.version_place(held) {
            None => Ok(packages.get(place).meets(held.dep)),
            Some(version) => self.meets_as_known(place, held.dep, version),
        }
    }

    // Whether the package at an index meets the dependency `dep`. The text of the dependency's
    // version is at the place `version`.
    fn meets_as_known(
        &mut self,
        place: usize,
        dep: &Dep<'_>,
        version: VersionPlace,
    ) -> Result<bool, AllocError>
        requires within { place < length (candidates_of_packages self.old.packages.now) }
        // The version of the dependency is the text at this place.
        requires named { (dependency dep.now).version ≡ Some
            (source_text self.old.packages.now.sources.items version.source version.word) }
        // The remembered results are right, before the call and after it.
        requires matches { AreMatchesByVersion (source_text self.old.packages.now.sources.items)
            self.old.by_version }
        // The result says whether the candidate at the place meets the dependency.
        ensures meets { IfOk result (λ meets. (c : Candidate)
            → slice_get (candidates_of_packages self.old.packages.now) place ≡ Some c
            → meets ≡ meets_dependency (dependency dep.now) c) }
        ensures packages { self.new.packages ≡ self.old.packages }
        ensures matches { OnOk result (AreMatchesByVersion
            (source_text self.old.packages.now.sources.items) self.new.by_version) }
    {
        let packages = self.packages;
        // Results are stored by the place of the version's text, and by the match bits.
        let key = (version.source, version.word, dep.op.bits());
        let mut known = take_known(self.alloc, &mut self.by_version, key);
        let meets = packages.meets_dependency_or_has_package_name(
            place,
            &NeedRef::Entry(dep),
            &mut known,
        )?;
        self.by_version.insert(key, known)?;
        Ok(meets)
    }
}

// The results for the version with a key, taken out of the map; no results if the map does not have
// the key.
fn take_known(
    alloc: Global,
    by_version: &mut BTreeMap<(u32, u32, u8), KnownMatches>,
    key: (u32, u32, u8),
) -> KnownMatches
    // The results returned are those that are remembered for this version and these match bits.
    ensures taken { (text : ℕ → ℕ → List ℕ) (d : Dependency)
        → AreMatchesByVersion text by_version.old → d.version ≡ Some (text key.0 key.1)
        → d.bits ≡ key.2 → AreRememberedMatchesOf text d result }
    // The results that remain in the map are right if all were right before.
    ensures others { (text : ℕ → ℕ → List ℕ)
        → AreMatchesByVersion text by_version.old → AreMatchesByVersion text by_version.new }
{
    match by_version.remove(&key) {
        Some(known) => known,
        None => KnownMatches::new(alloc),
    }
}
