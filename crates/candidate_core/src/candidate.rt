//! Candidates, the packages that the solver chooses from. `Candidate` is what a caller sees,
//! `Details` what the pool and the search compare. The rules are in `docs/selection.md`: "What
//! there is to choose from" (which candidate is the installed package, and what a candidate meets),
//! and "What satisfies world", 3 (which names it occupies). The fields of a package's information,
//! and which numbers are read, are in `docs/formats.md`, "Schemas", table 3.
ghost use Rattle.std.specs.Prelude.{◌≡◌, ◌&&◌, ◌==◌, false, not, length, option_copied};
ghost use Rattle.std.specs.List.{list_all, list_any};
ghost use Rattle.dep_core.specs.Dependency.{Dependency};
ghost use Rattle.dep_core.specs.Meets.{dependency};
ghost use Rattle.candidate_core.specs.Candidates.{candidate_of, is_name_occupied_by_provides_entry, is_met_by_provides_entry, is_same_id_by_nonempty_prefix, is_repository_package_same_as_installed, is_same_version, meets_by_own_name, meets_dependency, meets_dependency_or_has_package_name, occupies_name};
ghost use Rattle.candidate_core.specs.PackageWords.{IsPackageWordOf, info_in_source};
ghost use Rattle.candidate_core.specs.Rank.{is_untagged};
ghost use Rattle.candidate_core.specs.Values.{candidate_value, need_of_ref};
ghost use Rattle.candidate_core.specs.PositiveInstallIfs.{has_positive_install_if};

use crate::dependencies::Deps;
use crate::need::NeedRef;
use crate::packages::Source;
use adb_schema::{PkgInfo, View};
use adb_view::Val;
use dep_core::Dep;
use std::marker::Model;
use version_core::Version;

/// A place in the list of candidates, counted from 0.
#[derive(Clone, Copy, PartialEq, Eq)]
pub struct CandId {
    /// The place, counted from 0; that of a candidate is below 65,536.
    pub place: u32,
}

impl Model for CandId {
    ghost use Rattle.std.specs.Prelude.{ℕ};

    ghost Value = { ℕ };

    // The value is the place.
    ghost view = { λ id. id.place };

    // Each number is the view of exactly one id.
    ghost inverse = { λ place. record { place = place } };
}

/// A candidate, as it is shown to a caller.
#[derive(Clone, Copy)]
pub struct Candidate<'a> {
    /// The information of the package in its index, or in the database.
    pub info: PkgInfo<'a>,
    /// The repository of the package, counted from 1; None for an installed package that no index
    /// has.
    pub repo: Option<u64>,
    /// The tag of the repository, if it has one.
    pub tag: Option<&'a [u8]>,
    /// Whether the package is installed.
    pub installed: bool,
}

/// The parts of a candidate that the pool and the search compare. Each part is read from the
/// package's information on demand, and all texts are borrowed.
#[derive(Drop)]
pub struct Details<'a> {
    /// The information of the package in its index, or in the database.
    info: PkgInfo<'a>,
    /// The repository of the package, counted from 1; None for an installed package that no index
    /// has.
    repo: Option<u64>,
    /// The tag of the repository, if it has one.
    tag: Option<&'a [u8]>,
    /// Whether the package is installed.
    installed: bool,
    /// Whether the version and the lists of dependencies are known to obey their rules, so that
    /// they are not tested again. They were tested with the index, or when the installed package
    /// was added.
    has_sound_texts: bool,
}

impl<'a> Model for Details<'a> {
    ghost use Rattle.std.specs.Coded.{codes};
    ghost use Rattle.candidate_core.specs.PlainCode.{plain_code};
    ghost use Rattle.std.specs.Prelude.{◌≡◌, true, option_copied};
    ghost use Rattle.adb_schema.specs.Views.{info_value};
    ghost use Rattle.candidate_core.specs.Candidates.{Candidate as CandidateValue, candidate_of};
    ghost use Rattle.candidate_core.specs.SoundTexts.{HasSoundTexts};

    ghost Value = { CandidateValue };

    // Candidates with equal codes are equal (`Coded`).
    ghost coded = { Prim.hlevel (codes, plain_code) };

    // The value is the candidate with this information, this repository and its tag, and this mark
    // of whether it is installed.
    ghost view = { λ d. candidate_of (info_value d.info) d.repo (option_copied d.tag) d.installed };

    // If `has_sound_texts` is true, the texts obey their rules.
    ghost invariant = { λ d. d.has_sound_texts ≡ true → HasSoundTexts (info_value d.info) };
}

impl<'a> Details<'a> {
    /// The details of the package with this word in a source; `installed` says whether the package
    /// is installed.
    pub fn of(source: &Source<'a>, word: Val, installed: bool) -> Details<'a>
        requires { IsPackageWordOf source.now word }
        ensures { result ≡ candidate_of (info_in_source source.now word) source.now.repo
            (option_copied source.now.tag) installed }
    {
        Details {
            info: PkgInfo::of(source.adb, word),
            repo: source.repo,
            tag: source.tag,
            installed,
            has_sound_texts: source.has_sound_texts,
        }
    }

    /// The candidate as a caller sees it: the information from which its parts are read, without
    /// the parts.
    pub fn candidate(&self) -> Candidate<'a>
        ensures { candidate_value result ≡ self.now }
    {
        Candidate {
            info: self.info,
            repo: self.repo,
            tag: self.tag,
            installed: self.installed,
        }
    }

    /// The name of the package.
    pub fn name(&self) -> &'a [u8]
        ensures { result.now ≡ self.now.name }
    {
        self.info.name()
    }

    /// The version of the package; None only if the text is no version, which never happens in a
    /// tested container.
    pub fn version(&self) -> Option<Version<'a>>
        ensures { result ≡ self.now.version }
    {
        let text = self.info.version();
        if self.has_sound_texts {
            Some(Version::of(text))
        } else {
            Version::read(text)
        }
    }

    // The id of the package in its index, or in the database: empty, the whole id, or a prefix of
    // it.
    fn id(&self) -> &'a [u8]
        ensures { result.now ≡ self.now.id }
    {
        self.info.hashes()
    }

    /// The dependencies of the package, its conflicts among them.
    pub fn depends(&self) -> Deps<'a>
        ensures { result ≡ self.now.depends }
    {
        Deps::of(self.info.depends(), self.has_sound_texts)
    }

    /// The names that the package provides, some with a version.
    pub fn provides(&self) -> Deps<'a>
        ensures { result ≡ self.now.provides }
    {
        Deps::of(self.info.provides(), self.has_sound_texts)
    }

    /// The install-if of the package: if each of these dependencies is met, the name of the package
    /// is needed.
    pub fn install_if(&self) -> Deps<'a>
        ensures { result ≡ self.now.install_if }
    {
        Deps::of(self.info.install_if(), self.has_sound_texts)
    }

    /// Whether one of the package's dependencies is no conflict and is met by another candidate.
    pub fn needs(&self, other: &Details<'_>) -> bool
        ensures { result ≡ list_any (λ (d : Dependency). not d.conflict
            && meets_dependency d other.now) self.now.depends }
    {
        any_met_by(&self.depends(), other)
    }

    /// The provider-priority: how strongly the package is preferred among the providers of a name.
    /// The greater is preferred.
    pub fn priority(&self) -> u64
        ensures { result ≡ self.now.priority }
    {
        self.info.provider_priority()
    }

    /// The repository of the package, counted from 1; None for an installed package that no index
    /// has.
    pub fn repo(&self) -> Option<u64>
        ensures { result ≡ self.now.repository }
    {
        self.repo
    }

    /// The tag of the package's repository, if it has one.
    pub fn tag(&self) -> Option<&'a [u8]>
        ensures { option_copied result ≡ self.now.tag }
    {
        self.tag
    }

    /// Whether the package is from a repository without tag, or from none.
    pub fn is_untagged(&self) -> bool
        ensures { result ≡ is_untagged self.now }
    {
        self.tag.is_none()
    }

    /// Whether the package is installed, be it one of an index or not.
    pub fn is_installed(&self) -> bool
        ensures { result ≡ self.now.installed }
    {
        self.installed
    }

    /// Whether the candidate is from a repository, and is the same package as an installed one:
    /// name, text of the version and id are the same.
    pub fn is_repository_package_same_as_installed(&self, installed: &Details<'_>) -> bool
        ensures { result ≡ is_repository_package_same_as_installed installed.now self.now }
    {
        if self.repo.is_none() {
            return false;
        }
        if self.name() != installed.name() {
            return false;
        }
        if !is_same_version(self.version(), installed.version()) {
            return false;
        }
        is_same_id_by_nonempty_prefix(self.id(), installed.id())
    }

    /// Whether the candidate has an install-if, and none of its entries is a conflict.
    pub fn has_positive_install_if(&self) -> bool
        ensures { result ≡ has_positive_install_if self.now }
    {
        are_some_and_positive(&self.install_if())
    }

    /// Whether the candidate meets a need: a dependency, or the name of a package whose install-if
    /// applies, which only a package of that name meets.
    pub fn meets_dependency_or_has_package_name(&self, need: &NeedRef<'_>) -> bool
        ensures { result ≡ meets_dependency_or_has_package_name (need_of_ref need.now) self.now }
    {
        match need {
            NeedRef::Named(name) => *name == self.name(),
            NeedRef::Entry(dep) => self.meets(dep),
        }
    }

    /// Whether the candidate meets a dependency by its own name and version, or by an entry of its
    /// provides. It does not matter whether the dependency is a conflict.
    pub fn meets(&self, dep: &Dep<'_>) -> bool
        ensures { result ≡ meets_dependency (dependency dep.now) self.now }
    {
        if self.meets_by_own_name(dep) {
            return true;
        }
        any_meets(&self.provides(), dep)
    }

    /// Whether the candidate's own name and version meet a dependency.
    pub(crate) fn meets_by_own_name(&self, dep: &Dep<'_>) -> bool
        ensures { result ≡ meets_by_own_name (dependency dep.now) self.now }
    {
        let name = self.name();
        if dep.name != name {
            return false;
        }
        let version = self.version();
        dep.met_by(name, version.as_ref())
    }

    /// Whether the candidate occupies a name, which only one member of a selection may do: it has
    /// the name, or provides it with a version.
    pub fn occupies(&self, name: &[u8]) -> bool
        ensures { result ≡ occupies_name name.now self.now }
    {
        if name == self.name() {
            return true;
        }
        any_occupies(&self.provides(), name)
    }
}

// Whether two versions have the same text, or both are absent. Equal versions with different texts,
// such as `1` and `01`, are not the same.
fn is_same_version(one: Option<Version<'_>>, other: Option<Version<'_>>) -> bool
    ensures { result ≡ is_same_version one.entry other.entry }
{
    match (one, other) {
        (None, None) => true,
        (None, Some(_)) => false,
        (Some(_), None) => false,
        (Some(one), Some(other)) => one.text() == other.text(),
    }
}

/// Whether two ids are the same: both are present, and one is a prefix of the other, since an index
/// may store 20 of 32 bytes.
pub fn is_same_id_by_nonempty_prefix(one: &[u8], other: &[u8]) -> bool
    ensures { result ≡ is_same_id_by_nonempty_prefix one.now other.now }
{
    if one.is_empty() || other.is_empty() {
        return false;
    }
    one.starts_with(other) || other.starts_with(one)
}

// Whether the list has an entry, and no conflict. An install-if with such entries can apply.
fn are_some_and_positive(deps: &Deps<'_>) -> bool
    ensures { result ≡ (not (length deps.now == 0)
        && list_all (λ (d : Dependency). not d.conflict) deps.now) }
{
    if deps.is_empty() {
        return false;
    }
    are_positive(deps)
}

/// Whether the list has no conflict.
fn are_positive(deps: &Deps<'_>) -> bool
    ensures { result ≡ list_all (λ (d : Dependency). not d.conflict) deps.now }
{
    for i in 0..deps.len() {
        if deps.get(i).conflict {
            return false;
        }
    }
    true
}

// Whether an entry of a candidate's provides occupies a name.
fn any_occupies(provides: &Deps<'_>, name: &[u8]) -> bool
    ensures { result ≡ list_any (is_name_occupied_by_provides_entry name.now) provides.now }
{
    for i in 0..provides.len() {
        let entry = provides.get(i);
        if is_name_occupied_by_provides_entry(name, &entry) {
            return true;
        }
    }
    false
}

/// Whether an entry of a candidate's provides occupies a name: it is of that name, has a version,
/// and is no conflict.
fn is_name_occupied_by_provides_entry(name: &[u8], entry: &Dep<'_>) -> bool
    ensures { result ≡ is_name_occupied_by_provides_entry name.now (dependency entry.now) }
{
    if entry.conflict {
        return false;
    }
    entry.version.is_some() && name == entry.name
}

// Whether an entry of a candidate's provides meets a dependency.
fn any_meets(provides: &Deps<'_>, dep: &Dep<'_>) -> bool
    ensures { result ≡ list_any (is_met_by_provides_entry (dependency dep.now)) provides.now }
{
    for i in 0..provides.len() {
        let entry = provides.get(i);
        if is_met_by_provides_entry(dep, &entry) {
            return true;
        }
    }
    false
}

/// Whether one entry of a candidate's provides meets a dependency; an entry that is a conflict
/// provides nothing.
pub(crate) fn is_met_by_provides_entry(dep: &Dep<'_>, entry: &Dep<'_>) -> bool
    ensures { result ≡ is_met_by_provides_entry (dependency dep.now) (dependency entry.now) }
{
    if entry.conflict {
        return false;
    }
    dep.met_by(entry.name, entry.version.as_ref())
}

// Whether an entry of the list is no conflict, and the candidate meets it.
fn any_met_by(deps: &Deps<'_>, candidate: &Details<'_>) -> bool
    ensures { result ≡ list_any (λ (d : Dependency). not d.conflict
        && meets_dependency d candidate.now) deps.now }
{
    for i in 0..deps.len() {
        let dep = deps.get(i);
        if !dep.conflict && candidate.meets(&dep) {
            return true;
        }
    }
    false
}
