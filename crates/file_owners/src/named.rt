//! `places_of_each`: for each member, which members its field `replaces` names.
//! The rule is in `docs/commands.md`, "Files that several packages list". No two members have the
//! same name, so an entry names at most one member.

ghost use Rattle.std.specs.Prelude.{◌≡◌, ◌==◌, IfOk, map, true};
ghost use Rattle.std.specs.List.{list_any};
ghost use Rattle.std.specs.List.Sorted.{IsSorted};
ghost use Rattle.std.specs.Ordering.{nat_cmp};
ghost use Rattle.adb_view.specs.Adb.{payload_of};
ghost use Rattle.adb_view.specs.Entries.{array_entries};
ghost use Rattle.adb_view.specs.Shaped.{Each};
ghost use Rattle.adb_view.specs.FieldIndexes.{INFO_REPLACES_INDEX, PACKAGE_INFO_INDEX};
ghost use Rattle.adb_view.specs.Values.{entries_in, entry_at_index};
ghost use Rattle.adb_view.specs.declared.tables.Kind.TheVariants as Kinds;
ghost use Rattle.adb_view.specs.declared.tables.Which.TheVariants as Tables;
ghost use Rattle.path_claims.specs.adb_fields.Fields.{are_all_sound, array_at};
ghost use Rattle.db_core.specs.adb_schema.Views.{info_value, package_value};
ghost use Rattle.db_core.specs.adb_schema.SoundValues.{ObeysTextAndNumberRulesOfDependency};
ghost use Rattle.db_core.specs.Seen.{members_of};
ghost use Rattle.file_owners.specs.NamedPlaces.{ArePlacesOfNamedMembers, ArePlacesNamedByEachMember};

use crate::questions::places_in;
use adb_view::{Arr, Which};
use db_core::{Members, PackageView, PkgInfo};
use path_claims::objects_field;
use std::alloc::{AllocError, Global};

/// The number of the field `replaces` in the information of a package.
const REPLACES: usize = 16;

/// For each member, in order, the indexes of the members that its `replaces` names, in rising
/// order. Each entry of `replaces` is read once, and a version that entries share is compared once
/// for each member and operator.
pub(crate) fn places_of_each(
    alloc: Global,
    members: &Members<'_>,
) -> Result<Vec<Vec<u32>>, AllocError>
    // On Ok, there is one list for each member, with the indexes of the members that it names.
    ensures { IfOk result (λ named.
        ArePlacesNamedByEachMember (members_of members.now) (map (λ v. v.items) named.items)) }
{
    // A law that the proof needs; it computes nothing.
    members.packages_are_sound();
    let mut named = Vec::with_capacity(alloc, members.len())?;
    for i in 0..members.len() {
        let places = places_named(alloc, members, members.view(i))?;
        named.push(places)?;
    }
    Ok(named)
}

/// The indexes of the members that the entries of the `replaces` of `pkg` name, in rising order. An
/// index may be repeated. A member is a package that is installed after the change.
fn places_named(
    alloc: Global,
    members: &Members<'_>,
    pkg: &PackageView<'_>,
) -> Result<Vec<u32>, AllocError>
    // The entries of `replaces` obey the rules of dependencies.
    requires { Each ObeysTextAndNumberRulesOfDependency (entries_in
        (entry_at_index (entry_at_index
        (package_value pkg.now) PACKAGE_INFO_INDEX) INFO_REPLACES_INDEX)) }
    // On Ok, these are the indexes of the members that the package names.
    ensures { IfOk result (λ places.
        ArePlacesOfNamedMembers (members_of members.now) (package_value pkg.now) places.items) }
{
    let info = pkg.info();
    let mut places = places_in(alloc, members, info.adb(), replaced_entries(&info))?;
    places.sort()?;
    Ok(places)
}

/// The entries of the field `replaces` in the information of a package.
fn replaced_entries<'a>(info: &PkgInfo<'a>) -> Arr<'a>
    // Each word of the result leads to a value with the shape of a dependency.
    ensures sound { are_all_sound (payload_of info.now.adb) (Kinds.Obj Tables.Dep)
        (array_entries result) ≡ true }
    // The plain values of these words are the entries of the field.
    ensures value { array_at (payload_of info.now.adb) (Kinds.Obj Tables.Dep)
        (array_entries result) ≡ entry_at_index (info_value info.now) INFO_REPLACES_INDEX }
{
    objects_field(
        info.adb(),
        Which::PkgInfo,
        info.word(),
        REPLACES,
        Which::Dep,
    )
}

/// Whether the index `place` is among the indexes `places`, by a binary search.
pub(crate) fn is_among(places: &[u32], place: u32) -> bool
    // The indexes are in rising order.
    requires { IsSorted nat_cmp places.now }
    ensures { result ≡ list_any (λ p. p == place) places.now }
{
    places.binary_search(&place).is_ok()
}
