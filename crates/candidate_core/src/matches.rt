//! Which long versions one dependency accepts, as far as they were compared. Many packages may
//! share the text of a version, so a long one is compared once for a need. What a dependency
//! accepts is defined in `docs/selection.md`, "What there is to choose from". Remembering the
//! results only saves time, as the README of this crate says.
ghost use Rattle.std.specs.Prelude.{◌≡◌, ℕ, List, IfSome, is_some, true};
ghost use Rattle.dep_core.specs.Dependency.{Dependency};
ghost use Rattle.dep_core.specs.Meets.{dependency, meets};
ghost use Rattle.candidate_core.specs.Candidates.{entry};
ghost use Rattle.candidate_core.specs.Matches.{AreRememberedMatchesOf, IsRememberedMatch, dependency_accepts};
ghost use Rattle.candidate_core.specs.VersionContracts.{AnswersAndRemembers};
ghost use Rattle.candidate_core.specs.VersionTexts.{HasVersionTextFrom};

use crate::versions::RankedVersion;
use dep_core::Dep;
use std::alloc::{AllocError, Global};
use std::collections::BTreeMap;
use version_core::Version;

/// The greatest length, in bytes, of a version that is always compared anew. Any number is correct:
/// with a greater one fewer comparisons are shared, with a smaller one results are remembered that
/// are faster to compute again.
const SHORT: usize = 64;

/// Remembered results: which long versions one dependency accepts.
#[derive(Drop)]
pub struct KnownMatches {
    /// The results, each under the place of the version's text: the index of its source, and its
    /// word (32-bit value) there.
    answers: BTreeMap<(u32, u32), bool>,
}

impl KnownMatches {
    /// No result is remembered yet.
    pub fn new(alloc: Global) -> KnownMatches
        // Without results, none is wrong, for whatever dependency.
        ensures { (text : ℕ → ℕ → List ℕ) (d : Dependency) → AreRememberedMatchesOf text d result }
    {
        KnownMatches {
            answers: BTreeMap::new(alloc),
        }
    }

    /// Whether a dependency accepts a version. The result for a long version is remembered, in
    /// memory linear in the number of long texts.
    ///
    /// # Errors
    ///
    /// Out of memory.
    pub(crate) fn constraint_accepts(
        &mut self,
        dep: &Dep<'_>,
        found: &RankedVersion<'_>,
    ) -> Result<bool, AllocError>
        // The answer is whether the dependency accepts the version, and it is remembered.
        ensures { AnswersAndRemembers (λ text. HasVersionTextFrom text found.now)
            (entry (dependency dep.now)) (dependency_accepts (dependency dep.now) found.now.version)
            self.old self.new result }
    {
        if !is_long(&found.version) {
            return Ok(is_version_wanted(dep, found));
        }
        match self.known_answer(found) {
            Some(answer) => Ok(answer),
            None => self.answer(dep, found),
        }
    }

    /// Whether a dependency accepts a version; a long version is compared only if no result is
    /// remembered.
    pub(crate) fn is_wanted_as_known(&self, dep: &Dep<'_>, found: &RankedVersion<'_>) -> bool
        // If the remembered results are right, so is the answer.
        ensures { (text : ℕ → ℕ → List ℕ) → HasVersionTextFrom text found.now
            → AreRememberedMatchesOf text (dependency dep.now) self.now
            → result ≡ dependency_accepts (dependency dep.now) found.now.version }
    {
        if !is_long(&found.version) {
            return is_version_wanted(dep, found);
        }
        match self.known_answer(found) {
            Some(answer) => answer,
            None => is_version_wanted(dep, found),
        }
    }

    // The remembered result for a version; None if there is none.
    fn known_answer(&self, found: &RankedVersion<'_>) -> Option<bool>
        ensures { IfSome result (IsRememberedMatch self.now found.now.source found.now.word) }
    {
        self.answers.get(&(found.source, found.word)).copied()
    }

    // Compares a version for which no result is remembered, remembers whether the dependency
    // accepts it, and returns that.
    fn answer(&mut self, dep: &Dep<'_>, found: &RankedVersion<'_>) -> Result<bool, AllocError>
        // The version is not absent.
        requires { is_some found.now.version ≡ true }
        // The answer is whether the dependency accepts the version, and it is remembered.
        ensures { AnswersAndRemembers (λ text. HasVersionTextFrom text found.now)
            (entry (dependency dep.now)) (dependency_accepts (dependency dep.now) found.now.version)
            self.old self.new result }
    {
        let answer = is_version_wanted(dep, found);
        self.answers.insert((found.source, found.word), answer)?;
        Ok(answer)
    }
}

// Whether a dependency accepts a version, by comparing it.
fn is_version_wanted(dep: &Dep<'_>, found: &RankedVersion<'_>) -> bool
    ensures { result ≡ meets (dependency dep.now) (dependency dep.now).name found.now.version }
{
    dep.met_by(dep.name, found.version.as_ref())
}

/// Whether a version has more than `SHORT` bytes, so that comparing it may take long. An absent
/// version is not long.
pub fn is_long(version: &Option<Version<'_>>) -> bool
    ensures { result ≡ true → is_some version.now ≡ true }
{
    match version {
        Some(version) => version.text().len() > SHORT,
        None => false,
    }
}
