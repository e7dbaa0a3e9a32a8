//! What happens to one package in a change: it is installed, removed, or replaced. Used by
//! `placed.rt`.
//! The rules are in `docs/selection.md`, "What there is to choose from" (when a candidate is the
//! installed package), in `docs/formats.md`, "Versions" (their order), and in `docs/names.md`,
//! "A change of what is installed".
ghost use Rattle.own_core.specs.adb_schema.Views.{package_value};
ghost use Rattle.own_core.specs.db_core.Seen.{packages_of};
ghost use Rattle.own_core.specs.file_owners.Replaces.{package_version_text};
ghost use Rattle.own_core.specs.db_core.Packages.{installed_id};
ghost use Rattle.package_changes.specs.Changes.{change_between, is_of_no_repository_or_same_version_and_id, candidate_version_text, version_change, version_text_cmp};
ghost use Rattle.package_changes.specs.Seen.{change_seen};
ghost use Rattle.solve_core.specs.candidate_core.Values.{candidate_value};
ghost use Rattle.report_core.specs.Reports as Texts;
ghost use Rattle.std.specs.Prelude.{◌≡◌, ◌<◌, false, Some, None, length, option_map, slice_get};

use own_core::{Db, PackageView};
use solve_core::{CandId, Candidate, is_same_id_by_nonempty_prefix};
use std::cmp::Ordering;
use std::marker::PhantomData;
use version_core::Version;

/// What happens to a package. The fields of a variant are the package's name and its version; the
/// last three variants have the version before the change and then the version after it.
#[derive(Clone, Copy)]
pub enum Change<'a> {
    /// The package is installed.
    Install(&'a [u8], &'a [u8]),
    /// The package is installed again, in the same version.
    Reinstall(&'a [u8], &'a [u8]),
    /// The package is removed.
    Purge(&'a [u8], &'a [u8]),
    /// A greater version replaces the old one.
    Upgrade(&'a [u8], &'a [u8], &'a [u8]),
    /// A smaller version replaces the old one.
    Downgrade(&'a [u8], &'a [u8], &'a [u8]),
    /// A version that is equal in order replaces the old one.
    Replace(&'a [u8], &'a [u8], &'a [u8]),
}

/// A change of a package, with the places of the package before and of the selected candidate.
#[derive(Clone, Copy)]
pub struct PlacedChange<'a> {
    /// What happens to the package.
    pub change: Change<'a>,
    /// The place of the package in the database before the change, counted from 0, if it was
    /// installed.
    pub old: Option<usize>,
    /// The place of the selected candidate in the list of all candidates, counted from 0, if a
    /// candidate with this name is selected.
    pub(crate) new: Option<u32>,
}

impl<'a> PlacedChange<'a> {
    /// The place of the selected candidate of this name, if there is one.
    pub fn new_place(&self) -> Option<CandId>
        ensures { result ≡ self.now.new }
    {
        match self.new {
            Some(place) => Some(CandId { place }),
            None => None,
        }
    }
}

/// The fields of an installed package that are compared with those of a candidate.
#[derive(Clone, Copy)]
pub(crate) struct OldPackage<'a> {
    /// The text of the package's version.
    version: &'a [u8],
    /// The id of the package, if it has one.
    id: &'a [u8],
}

impl<'a> OldPackage<'a> {
    /// The fields of this installed package. `_mark` serves only the borrow checker: it does not
    /// know the parts of a view that is made and lent here unless the signature names the view.
    pub(crate) fn of(pkg: &PackageView<'a>, _mark: PhantomData<PackageView<'a>>) -> OldPackage<'a>
        // The version is the text that the package's information has.
        ensures version { result.version.now ≡ package_version_text (package_value pkg.now) }
        // The id is that of the installed package.
        ensures id { result.id.now ≡ installed_id (package_value pkg.now) }
    {
        let info = pkg.info();
        OldPackage {
            version: info.version(),
            id: info.hashes(),
        }
    }
}

/// The change for the selected candidate `new`, whose name no installed package has.
pub(crate) fn install<'a>(name: &'a [u8], new: &Candidate<'a>) -> Change<'a>
    ensures { change_seen result
        ≡ Texts.Install name.entry.now (candidate_version_text (candidate_value new.now)) }
{
    Change::Install(name, new.info.version())
}

/// The change of the installed package at place `i` of the database, counted from 0, for which no
/// candidate is selected: the package is removed.
pub(crate) fn purge<'a>(
    name: &'a [u8],
    db: &Db<'a>,
    i: usize,
    _mark: PhantomData<PackageView<'a>>,
) -> Change<'a>
    // The place is one of the database.
    requires { i < length (packages_of db.now) }
    // The result is the change between the package at this place and no candidate.
    ensures { option_map (λ p. change_between false name.entry.now (Some p) None)
        (slice_get (packages_of db.now) i) ≡ Some (Some (change_seen result)) }
{
    let pkg = db.package(i);
    let old = OldPackage::of(&pkg, PhantomData);
    Change::Purge(name, old.version)
}

/// The change of the installed package at place `i` of the database, counted from 0, for which the
/// candidate `new` is selected. If this candidate is the package itself, nothing changes, or the
/// package is reinstalled if `is_again` is true. Otherwise the change is an upgrade, a downgrade,
/// or a replacement by a version that is equal in order.
pub(crate) fn replace<'a>(
    name: &'a [u8],
    db: &Db<'a>,
    i: usize,
    new: &Candidate<'a>,
    is_again: bool,
    _mark: PhantomData<PackageView<'a>>,
) -> Option<Change<'a>>
    // The place is one of the database.
    requires { i < length (packages_of db.now) }
    // The result is the change between the package at this place and the new candidate.
    ensures { option_map (λ p. change_between is_again name.entry.now (Some p)
        (Some (candidate_value new.now))) (slice_get (packages_of db.now) i)
        ≡ Some (option_map change_seen result) }
{
    let pkg = db.package(i);
    let old = OldPackage::of(&pkg, PhantomData);
    if !is_candidate_this_package(&old, new) {
        return Some(version_change(name, old.version, new.info.version()));
    }
    if is_again {
        return Some(Change::Reinstall(name, new.info.version()));
    }
    None
}

/// Whether the candidate `new` is the installed package `old` itself: it is of no repository, or
/// has the same text of the version and the same id as `old`.
fn is_candidate_this_package(old: &OldPackage<'_>, new: &Candidate<'_>) -> bool
    ensures { result
        ≡ is_of_no_repository_or_same_version_and_id old.now.version.now old.now.id.now
        (candidate_value new.now) }
{
    // A candidate of no repository is the installed package itself.
    if new.repo.is_none() {
        return true;
    }
    if old.version != new.info.version() {
        return false;
    }
    is_same_id_by_nonempty_prefix(old.id, new.info.hashes())
}

/// The change of a package from the version `old` to the version `new`, by their order.
fn version_change<'a>(name: &'a [u8], old: &'a [u8], new: &'a [u8]) -> Change<'a>
    ensures { change_seen result ≡ version_change name.entry.now old.entry.now new.entry.now
        (version_text_cmp old.entry.now new.entry.now) }
{
    match version_text_cmp(old, new) {
        Ordering::Less => Change::Upgrade(name, old, new),
        Ordering::Equal => Change::Replace(name, old, new),
        Ordering::Greater => Change::Downgrade(name, old, new),
    }
}

/// The order of two texts of versions; a text that is no version precedes every version.
fn version_text_cmp(old: &[u8], new: &[u8]) -> Ordering
    ensures { result ≡ version_text_cmp old.now new.now }
{
    match (Version::read(old), Version::read(new)) {
        (None, None) => Ordering::Equal,
        (None, Some(_)) => Ordering::Less,
        (Some(_), None) => Ordering::Greater,
        (Some(old), Some(new)) => old.compare(&new),
    }
}
