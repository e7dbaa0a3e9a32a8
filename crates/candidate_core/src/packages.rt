//! Packages, each stored as its word and the number of its source: an index, or an installed
//! package. The details of a package are read from its source on demand. The order of packages is
//! defined in `docs/selection.md`, "What there is to choose from"; a package's information in
//! `docs/formats.md`, "Schemas", table 3. Storing 12 bytes for each is this crate's own choice, as
//! its README says.
ghost use Rattle.std.specs.Prelude.{All};
ghost use Rattle.candidate_core.specs.PackageWords.{IsPackageWordAmong};

use crate::candidate::Details;
use crate::matches::KnownMatches;
use crate::need::NeedRef;
use crate::package_matches::PackageDep;
use crate::versions::{
    RankedVersion, VersionPlace, depends_version_place, meets_dependency_or_has_package_name,
    own_version, version_meeting_need,
};
use adb_view::{Adb, Val};
use std::alloc::{AllocError, Global};

/// A source of packages: an index, or one installed package of the database.
#[derive(Clone, Copy)]
pub struct Source<'a> {
    /// The payload that the packages are read from.
    pub adb: Adb<'a>,
    /// The repository of the packages, counted from 1; None for an installed package.
    pub repo: Option<u64>,
    /// The tag of the repository, if it has one.
    pub tag: Option<&'a [u8]>,
    /// Whether the texts of the source's packages are known to obey their rules.
    pub has_sound_texts: bool,
}

/// A package of a source.
#[derive(Clone, Copy)]
pub struct PackageWord {
    /// The word (32-bit value) that refers to the package's information in the source's payload.
    pub word: u32,
    /// The index of the package's source in the list of sources, counted from 0.
    pub source: u32,
    /// Whether the package counts as installed.
    pub installed: bool,
}

/// The packages of some sources.
pub struct Packages<'a> {
    /// The indexes and the installed packages, in the order in which they were added.
    pub sources: Vec<Source<'a>>,
    /// The packages, in the order in which they were added.
    words: Vec<PackageWord>,
    // Each word is that of a package of the source at its index.
    ghost sound: { All (IsPackageWordAmong sources.items) words.items },
}

/// Drops the parts in one call, so that a function that gives up has one drop and not many.
impl Drop for Packages<'_> {
    fn drop(self) {
        let Packages {
            sources: _,
            words: _,
        } = self;
    }
}

impl<'a> Packages<'a> {
    ghost use Rattle.candidate_core.specs.Candidates.{Candidate, meets_dependency_or_has_package_name, version_meeting_need};
    ghost use Rattle.candidate_core.specs.Matches.{AreMatchesFor};
    ghost use Rattle.candidate_core.specs.Values.{need_of_ref};
    ghost use Rattle.candidate_core.specs.VersionTexts.{HasVersionTextFrom, source_text};
    ghost use Rattle.dep_core.specs.Meets.{dependency};
    ghost use Rattle.candidate_core.specs.PackageMatches.{IsDepOfPackageAt};
    ghost use Rattle.std.specs.Prelude.{◌≡◌, ◌<◌, ◌∷◌, [], ◌++◌, length, Some, slice_get, IfOk, IfSome, OnOk, OnErr};
    ghost use Rattle.candidate_core.specs.PackageWords.{IsPackageWordAt};
    ghost use Rattle.candidate_core.specs.Packages.{candidate_in_source, candidates_of_packages, marked_installed_at};

    /// A list without packages.
    pub fn new(alloc: Global) -> Packages<'a>
        ensures { candidates_of_packages result ≡ [] }
    {
        Packages {
            sources: Vec::new(alloc),
            words: Vec::new(alloc),
        }
    }

    /// How many packages there are.
    pub fn len(&self) -> usize
        ensures { result ≡ length (candidates_of_packages self.now) }
    {
        self.words.len()
    }

    /// The details of the package at an index, counted from 0.
    pub fn get(&self, place: usize) -> Details<'a>
        requires { place < length (candidates_of_packages self.now) }
        ensures { slice_get (candidates_of_packages self.now) place ≡ Some result }
    {
        let package = self.words[place];
        let source = self.sources[package.source as usize];
        Details::of(&source, Val::of(package.word), package.installed)
    }

    /// The package's own version, for the package at a place, counted from 0.
    pub fn version(&self, place: usize) -> RankedVersion<'a>
        requires { place < length (candidates_of_packages self.now) }
        // The version is that of the candidate at the place.
        ensures version { (c : Candidate)
            → slice_get (candidates_of_packages self.now) place ≡ Some c
            → result.version ≡ c.version }
        // The version's text is at the place that is returned with it.
        ensures text { HasVersionTextFrom (source_text self.now.sources.items) result }
    {
        let package = self.words[place];
        let source = self.sources[package.source as usize];
        own_version(&source, package)
    }

    /// The version under which the package at an index, counted from 0, meets a need: its own, else
    /// that of the first entry of its provides that meets the need. Remembered results for long
    /// versions are used.
    pub fn version_meeting_need(
        &self,
        place: usize,
        need: &NeedRef<'_>,
        known: &KnownMatches,
    ) -> RankedVersion<'a>
        requires within { place < length (candidates_of_packages self.now) }
        // The remembered results are right for this need.
        requires known { AreMatchesFor (source_text self.now.sources.items) (need_of_ref need.now)
            known.now }
        // The result is the version under which the candidate at the place meets the need.
        ensures version { (c : Candidate)
            → slice_get (candidates_of_packages self.now) place ≡ Some c
            → result.version ≡ version_meeting_need (need_of_ref need.now) c }
        // The version's text is at the place that is returned with it.
        ensures text { HasVersionTextFrom (source_text self.now.sources.items) result }
    {
        let package = self.words[place];
        let source = self.sources[package.source as usize];
        version_meeting_need(&source, package, need, known)
    }

    /// Whether the package at an index, counted from 0, meets a need. Results for long versions are
    /// remembered.
    ///
    /// # Errors
    ///
    /// Out of memory.
    pub fn meets_dependency_or_has_package_name(
        &self,
        place: usize,
        need: &NeedRef<'_>,
        known: &mut KnownMatches,
    ) -> Result<bool, AllocError>
        requires within { place < length (candidates_of_packages self.now) }
        // The remembered results are right for this need, before the call and after it.
        requires known { AreMatchesFor (source_text self.now.sources.items) (need_of_ref need.now)
            known.old }
        // The result says whether the candidate at the place meets the need.
        ensures meets { IfOk result (λ meets. (c : Candidate)
            → slice_get (candidates_of_packages self.now) place ≡ Some c
            → meets ≡ meets_dependency_or_has_package_name (need_of_ref need.now) c) }
        ensures known { IfOk result (λ _.
            AreMatchesFor (source_text self.now.sources.items) (need_of_ref need.now) known.new) }
    {
        let package = self.words[place];
        let source = self.sources[package.source as usize];
        meets_dependency_or_has_package_name(&source, package, need, known)
    }

    /// The place of the text of the version in a dependency of a package; None if the place is not
    /// known. Without a version, the result means nothing.
    pub(crate) fn version_place(&self, held: &PackageDep<'_>) -> Option<VersionPlace>
        requires { IsDepOfPackageAt (candidates_of_packages self.now) held.now }
        // If a place is returned, the text there is the version of the dependency.
        ensures { IfSome result (λ place. IfSome (dependency held.now.dep.now).version
            (λ version. version
            ≡ source_text self.now.sources.items place.source place.word)) }
    {
        if held.package >= self.words.len() {
            return None;
        }
        let package = self.words[held.package];
        let source = self.sources[package.source as usize];
        depends_version_place(&source, package, held.index)
    }

    /// Adds a source, and returns its index, counted from 0. After an error the packages are
    /// unchanged.
    pub(crate) fn add_source(&mut self, source: Source<'a>) -> Result<u32, AllocError>
        // The source is then at the returned index, and no candidate has changed.
        ensures place { IfOk result (λ place.
            slice_get self.new.sources.items place ≡ Some source.entry) }
        ensures same { candidates_of_packages self.new ≡ candidates_of_packages self.old }
    {
        if self.sources.len() >= u32::MAX as usize {
            return Err(AllocError);
        }
        let place = self.sources.len() as u32;
        self.sources.push(source)?;
        Ok(place)
    }

    /// Appends the package with a word in the source at an index, which is counted from 0.
    /// `installed` says whether the package counts as installed.
    pub fn push(&mut self, source: u32, word: Val, installed: bool) -> Result<(), AllocError>
        requires { IsPackageWordAt self.old.sources.items source word }
        ensures sources { self.new.sources ≡ self.old.sources }
        // The package of this word in the source is appended as a candidate.
        ensures pushed { OnOk result (candidates_of_packages self.new
            ≡ candidates_of_packages self.old ++ candidate_in_source
            (slice_get self.old.sources.items source) word installed ∷ []) }
        // After an error the packages are unchanged.
        ensures same { OnErr result (candidates_of_packages self.new
            ≡ candidates_of_packages self.old) }
    {
        self.words.push(PackageWord {
            word: word.word(),
            source,
            installed,
        })?;
        Ok(())
    }

    /// Lets the package at a place, counted from 0, count as installed.
    pub(crate) fn mark_installed(&mut self, place: usize)
        requires { place < length (candidates_of_packages self.old) }
        ensures { candidates_of_packages self.new
            ≡ marked_installed_at place (candidates_of_packages self.old) }
    {
        self.words[place].installed = true;
    }
}
