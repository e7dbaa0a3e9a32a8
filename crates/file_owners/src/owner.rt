//! The owners of the files that members list, given which of two packages takes over the files of
//! the other.
//! The rules are in `docs/commands.md`, "Files that several packages list": which of two packages
//! beats the other, who owns a path, and which path is reported if nobody does.

ghost use Rattle.std.specs.Prelude.{◌≡◌, ◌<◌, Some, IfOk, length, map, option_map, slice_get, List, true, false};
ghost use Rattle.db_core.specs.Members.{Member, listings_of_members};
ghost use Rattle.db_core.specs.Seen.{members_of};
ghost use Rattle.base_core.specs.Sorted.{sorted_by};
ghost use Rattle.path_claims.specs.Claims.{claim_cmp};
ghost use Rattle.path_claims.specs.ContestedSeen.{contested_seen};
ghost use Rattle.path_claims.specs.Seen.{claim_seen};
ghost use Rattle.file_owners.specs.Owners.{claims_in, first_contested_member_path_in_byte_order, member_beats, owned_flags_of, owner_of_path};
ghost use Rattle.file_owners.specs.NamedPlaces.{ArePlacesNamedByEachMember};
ghost use Rattle.db_core.specs.adb_schema.Views.{dependency_value, package_value};
ghost use Rattle.file_owners.specs.Replaces.{does_replaces_entry_name_package, is_preferred_by_priority_or_later_name, is_package_met_by_replaces_entry, takes_over, package_version_text};
ghost use Rattle.db_core.specs.adb_schema.Dependencies.{dependency_in};
ghost use Rattle.db_core.specs.adb_schema.SoundValues.{ObeysTextAndNumberRulesOfDependency};
ghost use Rattle.version_core.specs.Order.{is_version};
ghost use Rattle.adb_view.specs.Plain.{Plain};
ghost use Rattle.db_core.specs.OwnedListings.{HaveAtMostOneOwnerForEachPath, owned_listings};

use crate::gather::claims_in;
use crate::named::{is_among, places_of_each};
use db_core::{DepView, Members, PackageView};
use dep_core::dep_of_parts;
use path_claims::{Contest, Owners, owners_of};
use std::alloc::{AllocError, Global};
use version_core::Version;

/// Members, with the indexes of the members that each of them names. It is the `Contest` by which
/// `owners_of` finds the owners of paths.
#[derive(Drop)]
struct Claimants<'m, 'a> {
    /// The members: the packages that are installed after the change.
    members: &'m Members<'a>,
    /// For each member, the indexes of the members that its `replaces` names, in rising order.
    named: Vec<Vec<u32>>,
    // `named` has, for each member, the indexes of the members that it names.
    ghost each: { ArePlacesNamedByEachMember (members_of members.now) (map
        (λ v. v.items) named.items) },
}

impl<'m, 'a> Contest for Claimants<'m, 'a> {
    // The test as a definition for contracts: whether one member takes over the files of another.
    ghost beats = { λ claimants. member_beats (members_of claimants.members.now) };

    /// Whether the member with the index `one` beats the member with the index `other`. False if
    /// there is no member with one of these indexes.
    fn beats(&self, one: u32, other: u32) -> bool {
        if one as usize >= self.members.len() {
            return false;
        }
        if other as usize >= self.members.len() {
            return false;
        }
        member_beats(self.members, &self.named, one, other)
    }
}

/// Whether the member with the index `one` takes over the files of the member with the index
/// `other`. `named` has, for each member, the indexes of the members that it names.
fn member_beats(members: &Members<'_>, named: &[Vec<u32>], one: u32, other: u32) -> bool
    // `one` is the index of a member.
    requires one { one < length (members_of members.now) }
    // `other` is the index of a member.
    requires other { other < length (members_of members.now) }
    // `named` has, for each member, the indexes of the members that it names.
    requires each { ArePlacesNamedByEachMember (members_of members.now) (map
        (λ v. v.items) named.now) }
    ensures { result ≡ member_beats (members_of members.now) one other }
{
    // Only a package that names the other one can take over its files. If both name each other, the
    // preferred one does.
    if !is_among(&named[one as usize], other) {
        return false;
    }
    if !is_among(&named[other as usize], one) {
        return true;
    }
    is_preferred(members.view(one as usize), members.view(other as usize))
}

/// Finds the owners of the files that members list.
///
/// # Errors
///
/// The program is out of memory.
pub fn owners_of_files<'a>(alloc: Global, members: &Members<'a>) -> Result<Owners<'a>, AllocError>
    // On Ok, `claims` has the claims of all members, in byte order of their paths.
    ensures claims { IfOk result (λ found. map claim_seen found.claims.items
        ≡ sorted_by claim_cmp (claims_in (members_of members.now))) }
    // On Ok, `owners` has, for each of these claims, the index of the member that owns its path, or
    // None.
    ensures owners { IfOk result (λ found. found.owners.items
        ≡ map (λ c. owner_of_path (members_of members.now) c.path)
        (map claim_seen found.claims.items)) }
    // On Ok, `owned` says of each listed file, in the order of members, folders and files, whether
    // its member owns it.
    ensures owned { IfOk result (λ found. found.owned.items
        ≡ owned_flags_of (members_of members.now)) }
    // On Ok, `contested` is the first path in byte order that no member owns, with its rivals.
    ensures contested { IfOk result (λ found. option_map contested_seen found.contested
        ≡ first_contested_member_path_in_byte_order (members_of members.now)) }
{
    let claims = claims_in(alloc, members)?;
    let named = places_of_each(alloc, members)?;
    owners_of(alloc, &Claimants { members, named }, claims)
}

/// Whether the entry `dep` of a `replaces` is no conflict, and a package with this name and version
/// meets it.
fn is_replaced(dep: &DepView<'_>, name: &[u8], version: &Version<'_>) -> bool
    // The entry obeys the rules of a dependency.
    requires { ObeysTextAndNumberRulesOfDependency (dependency_value dep.now) }
    ensures { result
        ≡ is_package_met_by_replaces_entry (dependency_in
        (dependency_value dep.now)) name.now version.now }
{
    match dep_of_parts(dep.name(), dep.version(), dep.matching()) {
        Some(dep) => !dep.conflict && dep.met_by(name, Some(version)),
        None => false,
    }
}

/// Whether the entry of a `replaces` names the package `pkg`: the entry is no conflict, and the
/// name and the version of `pkg` meet it. They are not validated, since packages are from sound
/// containers.
pub(crate) fn does_replaces_entry_name_package(entry: &DepView<'_>, pkg: &PackageView<'_>) -> bool
    // The entry obeys the rules of a dependency.
    requires entry { ObeysTextAndNumberRulesOfDependency (dependency_value entry.now) }
    // The version of `pkg` is valid.
    requires version { is_version (package_version_text (package_value pkg.now)) ≡ true }
    ensures { result ≡ does_replaces_entry_name_package (dependency_value entry.now)
        (package_value pkg.now) }
{
    let info = pkg.info();
    let version = Version::of(info.version());
    is_replaced(entry, info.name(), &version)
}

/// Whether `one`, of two packages that name each other, is preferred: its field `replaces-priority`
/// is greater, or it is equal and the name of `one` is later in byte order.
#[tactic(auto, unfolding(crate::specs::Replaces::is_preferred_by_priority_or_later_name))]
pub(crate) fn is_preferred<'a, 'b>(one: &PackageView<'a>, other: &PackageView<'b>) -> bool
    ensures { result ≡ is_preferred_by_priority_or_later_name (package_value one.now)
        (package_value other.now) }
{
    if one.replaces_priority() != other.replaces_priority() {
        return one.replaces_priority() > other.replaces_priority();
    }
    other.info().name().cmp(&one.info().name()).is_lt()
}

/// A law: of two packages at most one takes over the files of the other.
pub fn no_two_packages_take_over_from_each_other()
    ensures { (x y : Plain) → takes_over x y ≡ true → takes_over y x ≡ false }
{}

/// A law: no two members own files of the same path. So the flags that say whether a member owns
/// its files can be stored in a database.
pub fn no_path_is_owned_by_two_members()
    // Of the listings with the same path, the flags mark at most one member's.
    ensures { (members : List Member)
        → HaveAtMostOneOwnerForEachPath (owned_listings (listings_of_members members)
        (owned_flags_of members)) }
{}
