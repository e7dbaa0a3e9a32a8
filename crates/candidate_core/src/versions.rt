//! The versions by which options are ranked: the version of each, and the place of its text, by
//! which a text that many packages share is recognized. The rule is in `docs/selection.md`, "Which
//! selection is taken", the last paragraph (the version of key 5) and key 8.
ghost use Rattle.std.specs.Prelude.{◌≡◌, ℕ, List, IfSome, option_to_list, slice_get, Some};
ghost use Rattle.std.specs.Option.{option_and_then, option_map};
ghost use Rattle.std.specs.List.{find, list_any};
ghost use Rattle.std.specs.Str.{bytes_eq};
ghost use Rattle.adb_view.specs.Values.{entry_at_index, text_in};
ghost use Rattle.dep_core.specs.Dependency.{Dependency};
ghost use Rattle.dep_core.specs.Meets.{dependency};
ghost use Rattle.candidate_core.specs.Candidates.{dependencies_in_list_value, dependency_in, entry, is_met_by_provides_entry, meets_by_own_name, meets_dependency, meets_dependency_or_has_package_name, version_of_text, version_meeting_need};
ghost use Rattle.candidate_core.specs.Matches.{AreMatchesIn, GivesTextsOfSource};
ghost use Rattle.candidate_core.specs.PackageWords.{IsPackageWordOf, info_in_source};
ghost use Rattle.candidate_core.specs.Packages.{candidate_in_source};
ghost use Rattle.candidate_core.specs.Values.{need_of_ref};
ghost use Rattle.candidate_core.specs.VersionContracts.{AnswersAndRemembers, IsDependencyWordOf, IsDependencyEntryWordOf, IsVersionReadFrom, entry_in_source};

use crate::candidate::Details;
use crate::dependencies::{read_if_sound, read_sound};
use crate::judging::{DEPENDS, PACKAGE_VERSION, PROVIDES, VERSION};
use crate::matches::KnownMatches;
use crate::need::NeedRef;
use crate::packages::{PackageWord, Source};
use adb_schema::{DepView, View, field_word, objects_field};
use adb_view::{Val, Which, entry_word};
use dep_core::Dep;
use std::alloc::AllocError;
use version_core::Version;

/// A version that an option is ranked by.
#[derive(Drop)]
pub struct RankedVersion<'a> {
    /// The version; None if the text is no version, or the need is met by an entry without version.
    pub version: Option<Version<'a>>,
    /// The place of the source that the version's text is read from, counted from 0.
    pub source: u32,
    /// The word (32-bit value) that refers to the version's text in that source.
    pub word: u32,
    /// How many of the ranked versions precede this one; 0 before they are ranked.
    pub rank: usize,
}

/// The place of the text of a version.
#[derive(Clone, Copy)]
pub(crate) struct VersionPlace {
    /// The place of the source that the text is read from, counted from 0.
    pub source: u32,
    /// The word (32-bit value) that refers to the text in that source.
    pub word: u32,
}

/// Which of the two versions of an option is ranked.
#[derive(Clone, Copy)]
pub enum VersionKind {
    /// The version under which the candidate meets the need.
    Under,
    /// The candidate's own version.
    Own,
}

/// The version of a package in a source; `kept` has the word (32-bit value) of the package. In the
/// clause, 1 is the index of the version among the fields of a package's information
/// (`PACKAGE_VERSION`).
pub(crate) fn own_version<'a>(source: &Source<'a>, kept: PackageWord) -> RankedVersion<'a>
    requires { IsPackageWordOf source.now kept.word }
    ensures { IsVersionReadFrom source.now kept.source (version_of_text
        (text_in (entry_at_index (info_in_source source.now kept.word) 1))) result }
{
    let word = Val::of(kept.word);
    RankedVersion {
        version: Details::of(source, word, kept.installed).version(),
        source: kept.source,
        word: field_word(source.adb, Which::PkgInfo, word, PACKAGE_VERSION).word(),
        rank: 0,
    }
}

/// The version under which a package in a source meets a need: its own, else that of the first
/// entry of provides that meets the need. Remembered results for long versions are used.
pub(crate) fn version_meeting_need<'a>(
    source: &Source<'a>,
    kept: PackageWord,
    need: &NeedRef<'_>,
    known: &KnownMatches,
) -> RankedVersion<'a>
    // The word refers to a package of the source.
    requires package { IsPackageWordOf source.now kept.word }
    // The remembered results are right for this need.
    requires known { AreMatchesIn source.now kept.source (need_of_ref need.now) known.now }
    // The result is the version under which the candidate with this word meets the need.
    ensures { IsVersionReadFrom source.now kept.source (version_meeting_need (need_of_ref need.now)
        (candidate_in_source (Some source.now) kept.word kept.installed)) result }
{
    match need {
        NeedRef::Named(_) => own_version(source, kept),
        NeedRef::Entry(dep) => version_meeting(source, kept, dep, known),
    }
}

/// The version under which the package with a word in a source meets a dependency.
fn version_meeting<'a>(
    source: &Source<'a>,
    kept: PackageWord,
    dep: &Dep<'_>,
    known: &KnownMatches,
) -> RankedVersion<'a>
    // The word refers to a package of the source.
    requires package { IsPackageWordOf source.now kept.word }
    // The remembered results are right for this need.
    requires known { AreMatchesIn source.now kept.source (entry (dependency dep.now)) known.now }
    // The result is the version under which the candidate with this word meets the dependency.
    ensures { IsVersionReadFrom source.now kept.source
        (version_meeting_need (entry (dependency dep.now))
        (candidate_in_source (Some source.now) kept.word kept.installed)) result }
{
    if meets_by_own_name_as_known(source, kept, dep, known) {
        return own_version(source, kept);
    }
    provided_version(source, kept, dep, known)
}

// Whether the package with a word in a source meets a dependency by its own name and version.
fn meets_by_own_name_as_known(
    source: &Source<'_>,
    kept: PackageWord,
    dep: &Dep<'_>,
    known: &KnownMatches,
) -> bool
    // The word refers to a package of the source.
    requires package { IsPackageWordOf source.now kept.word }
    // The remembered results are right for this need.
    requires known { AreMatchesIn source.now kept.source (entry (dependency dep.now)) known.now }
    // The result says whether the candidate meets the dependency by its own name and version.
    ensures { result ≡ meets_by_own_name (dependency dep.now)
        (candidate_in_source (Some source.now) kept.word kept.installed) }
{
    let details = Details::of(source, Val::of(kept.word), kept.installed);
    if !is_named_as(dep, details.name()) {
        return false;
    }
    known.is_wanted_as_known(dep, &own_version(source, kept))
}

// The version of the first entry of a package's provides that meets a dependency; None if no entry
// does. In the clause, 15 is the index of `provides` (`PROVIDES`).
fn provided_version<'a>(
    source: &Source<'a>,
    kept: PackageWord,
    dep: &Dep<'_>,
    known: &KnownMatches,
) -> RankedVersion<'a>
    // The word refers to a package of the source.
    requires package { IsPackageWordOf source.now kept.word }
    // The remembered results are right for this need.
    requires known { AreMatchesIn source.now kept.source (entry (dependency dep.now)) known.now }
    // The result is the version of the first entry of provides that meets the dependency.
    ensures { IsVersionReadFrom source.now kept.source (option_and_then (λ
        (p : Dependency). p.version)
        (find (is_met_by_provides_entry (dependency dep.now))
        (dependencies_in_list_value (entry_at_index
        (info_in_source source.now kept.word) 15)))) result }
{
    let word = Val::of(kept.word);
    let entries = objects_field(source.adb, Which::PkgInfo, word, PROVIDES, Which::Dep);
    for i in 0..entries.len() {
        let entry = entry_word(entries, i);
        if let Some(found) = read_entry(source, entry) {
            if is_met_as_known(source, kept.source, entry, &found, dep, known) {
                return version_of_entry(source, kept.source, entry, &found);
            }
        }
    }
    // No entry meets the dependency: an absent version needs no place.
    RankedVersion {
        version: None,
        source: kept.source,
        word: 0,
        rank: 0,
    }
}

// Whether an entry of provides meets the dependency `dep`. The entry has the word `word` in the
// source at the index `place`, and it is the dependency `found`.
fn is_met_as_known<'a>(
    source: &Source<'a>,
    place: u32,
    word: Val,
    found: &Dep<'a>,
    dep: &Dep<'_>,
    known: &KnownMatches,
) -> bool
    // The word is that of the dependency `found`.
    requires entry { IsDependencyWordOf source.now word (dependency found.now) }
    // The remembered results are right for this need.
    requires known { AreMatchesIn source.now place (entry (dependency dep.now)) known.now }
    ensures { result ≡ is_met_by_provides_entry (dependency dep.now) (dependency found.now) }
{
    if found.conflict {
        return false;
    }
    if !is_named_as(dep, found.name) {
        return false;
    }
    known.is_wanted_as_known(dep, &version_of_entry(source, place, word, found))
}

// The version of an entry of provides. The entry has the word `entry` in the source at the index
// `place`, and it is the dependency `found`. The word of an absent version is 0.
fn version_of_entry<'a>(
    source: &Source<'a>,
    place: u32,
    entry: Val,
    found: &Dep<'a>,
) -> RankedVersion<'a>
    requires { IsDependencyWordOf source.now entry (dependency found.now) }
    ensures { IsVersionReadFrom source.now place (dependency found.now).version result }
{
    let word = if found.version.is_some() {
        field_word(source.adb, Which::Dep, entry, VERSION).word()
    } else {
        0
    };
    RankedVersion {
        version: same_version(&found.version),
        source: place,
        word,
        rank: 0,
    }
}

/// The place of the text of the version in the dependency with an index, counted from 0, of the
/// package with a word in a source. None if the texts of the source are not known to obey their
/// rules: then an entry may be no dependency, and the index is not that of the entry. In the
/// clause, 14 is the index of `depends` (`DEPENDS`).
pub(crate) fn depends_version_place(
    source: &Source<'_>,
    kept: PackageWord,
    index: usize,
) -> Option<VersionPlace>
    requires { IsPackageWordOf source.now kept.word }
    // If the package has a dependency `d` at this index, and `d` has a version, the returned place
    // is that of the text of this version.
    ensures { (text : ℕ → ℕ → List ℕ) (d : Dependency)
        → GivesTextsOfSource source.now kept.source text
        → slice_get (dependencies_in_list_value (entry_at_index
        (info_in_source source.now kept.word) 14)) index
        ≡ Some d → IfSome result (λ place. IfSome d.version (λ version. version
        ≡ text place.source place.word)) }
{
    if !source.has_sound_texts {
        return None;
    }
    let word = Val::of(kept.word);
    let entries = objects_field(source.adb, Which::PkgInfo, word, DEPENDS, Which::Dep);
    if index >= entries.len() {
        return None;
    }
    let entry = entry_word(entries, index);
    let text = field_word(source.adb, Which::Dep, entry, VERSION);
    // The place of the text of the version in this dependency.
    Some(VersionPlace {
        source: kept.source,
        word: text.word(),
    })
}

/// A copy of a version; its text is borrowed.
pub fn same_version<'a>(version: &Option<Version<'a>>) -> Option<Version<'a>>
    ensures { result ≡ version.entry.now }
{
    match version {
        Some(version) => Some(Version::of(version.text())),
        None => None,
    }
}

// The dependency that an entry of a list is; None if it is none. If the source's texts obey their
// rules, each entry is a dependency.
fn read_entry<'a>(source: &Source<'a>, entry: Val) -> Option<Dep<'a>>
    requires { IsDependencyEntryWordOf source.now entry }
    ensures { option_map dependency result ≡ dependency_in (entry_in_source source.now entry) }
{
    let view = DepView::of(source.adb, entry);
    if source.has_sound_texts {
        return Some(read_sound(&view));
    }
    read_if_sound(&view)
}

/// Whether a package of a source meets a need; `kept` has the word (32-bit value) of the package.
/// Results for long versions are remembered.
pub(crate) fn meets_dependency_or_has_package_name(
    source: &Source<'_>,
    kept: PackageWord,
    need: &NeedRef<'_>,
    known: &mut KnownMatches,
) -> Result<bool, AllocError>
    requires { IsPackageWordOf source.now kept.word }
    // Unless memory runs out, the answer is right, and the remembered results stay right.
    ensures { AnswersAndRemembers (GivesTextsOfSource source.now kept.source) (need_of_ref need.now)
        (meets_dependency_or_has_package_name (need_of_ref need.now)
        (candidate_in_source (Some source.now) kept.word kept.installed)) known.old known.new result }
{
    match need {
        NeedRef::Named(name) => {
            let details = Details::of(source, Val::of(kept.word), kept.installed);
            Ok(*name == details.name())
        }
        NeedRef::Entry(dep) => meets(source, kept, dep, known),
    }
}

// Whether a package of a source meets a dependency. `kept` has the package's word.
fn meets(
    source: &Source<'_>,
    kept: PackageWord,
    dep: &Dep<'_>,
    known: &mut KnownMatches,
) -> Result<bool, AllocError>
    requires { IsPackageWordOf source.now kept.word }
    // Unless memory runs out, the answer is right, and the remembered results stay right.
    ensures { AnswersAndRemembers (GivesTextsOfSource source.now kept.source)
        (entry (dependency dep.now)) (meets_dependency (dependency dep.now)
        (candidate_in_source (Some source.now) kept.word kept.installed))
        known.old known.new result }
{
    let by_own = own_version_meets(source, kept, dep, known)?;
    if by_own {
        return Ok(true);
    }
    any_entry_meets(source, kept, dep, known)
}

// Whether a package of a source meets the dependency by its own name and version.
fn own_version_meets(
    source: &Source<'_>,
    kept: PackageWord,
    dep: &Dep<'_>,
    known: &mut KnownMatches,
) -> Result<bool, AllocError>
    requires { IsPackageWordOf source.now kept.word }
    // Unless memory runs out, the answer is right, and the remembered results stay right.
    ensures { AnswersAndRemembers (GivesTextsOfSource source.now kept.source)
        (entry (dependency dep.now)) (meets_by_own_name (dependency dep.now)
        (candidate_in_source (Some source.now) kept.word kept.installed))
        known.old known.new result }
{
    let details = Details::of(source, Val::of(kept.word), kept.installed);
    if !is_named_as(dep, details.name()) {
        return Ok(false);
    }
    known.constraint_accepts(dep, &own_version(source, kept))
}

// Whether an entry of a package's provides meets the dependency. In the clause, 15 is the index of
// `provides` (`PROVIDES`).
fn any_entry_meets(
    source: &Source<'_>,
    kept: PackageWord,
    dep: &Dep<'_>,
    known: &mut KnownMatches,
) -> Result<bool, AllocError>
    requires { IsPackageWordOf source.now kept.word }
    // Unless memory runs out, the answer is right, and the remembered results stay right.
    ensures { AnswersAndRemembers (GivesTextsOfSource source.now kept.source)
        (entry (dependency dep.now)) (list_any (is_met_by_provides_entry (dependency dep.now))
        (dependencies_in_list_value (entry_at_index (info_in_source source.now kept.word) 15)))
        known.old known.new result }
{
    let word = Val::of(kept.word);
    let entries = objects_field(source.adb, Which::PkgInfo, word, PROVIDES, Which::Dep);
    for i in 0..entries.len() {
        let entry = entry_word(entries, i);
        let by_entry = entry_meets(source, kept.source, entry, dep, known)?;
        if by_entry {
            return Ok(true);
        }
    }
    Ok(false)
}

// Whether an entry of provides meets the dependency `dep`. The entry has this word in the source at
// the index `place`. An entry that is no dependency meets none.
fn entry_meets<'a>(
    source: &Source<'a>,
    place: u32,
    word: Val,
    dep: &Dep<'_>,
    known: &mut KnownMatches,
) -> Result<bool, AllocError>
    requires { IsDependencyEntryWordOf source.now word }
    // Unless memory runs out, the answer is right, and the remembered results stay right.
    ensures { AnswersAndRemembers (GivesTextsOfSource source.now place)
        (entry (dependency dep.now)) (list_any (is_met_by_provides_entry (dependency dep.now))
        (option_to_list (dependency_in (entry_in_source source.now word))))
        known.old known.new result }
{
    match read_entry(source, word) {
        Some(found) => found_entry_meets(source, place, word, found, dep, known),
        None => Ok(false),
    }
}

// Whether an entry of provides meets the dependency `dep`. The entry has this word in the source at
// the index `place`, and it is the dependency `found`.
fn found_entry_meets<'a>(
    source: &Source<'a>,
    place: u32,
    word: Val,
    found: Dep<'a>,
    dep: &Dep<'_>,
    known: &mut KnownMatches,
) -> Result<bool, AllocError>
    requires { IsDependencyWordOf source.now word (dependency found) }
    // Unless memory runs out, the answer is right, and the remembered results stay right.
    ensures { AnswersAndRemembers (GivesTextsOfSource source.now place)
        (entry (dependency dep.now)) (is_met_by_provides_entry (dependency dep.now)
        (dependency found.entry))
        known.old known.new result }
{
    if found.conflict {
        return Ok(false);
    }
    if !is_named_as(dep, found.name) {
        return Ok(false);
    }
    known.constraint_accepts(dep, &version_of_entry(source, place, word, &found))
}

// Whether the dependency has this name.
fn is_named_as(dep: &Dep<'_>, name: &[u8]) -> bool
    ensures { result ≡ bytes_eq (dependency dep.now).name name.now }
{
    dep.name == name
}
