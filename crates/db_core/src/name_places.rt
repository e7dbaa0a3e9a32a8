//! Names of packages in byte order, each with the place of its package.
//! The rule is in `docs/DECISIONS.md`, "The installed database": a database may have its packages
//! in any order of names, so their names are also kept in byte order.
ghost use Rattle.pkg_core.specs.adb_fields.ListValue.{list_value};
ghost use Rattle.pkg_core.specs.adb_fields.Repeated.{list_of, package_name};
ghost use Rattle.pkg_core.specs.adb_schema.Views.{package_value};
ghost use Rattle.adb_view.specs.Values.{count_of, entries_in, entry_at_index};
ghost use Rattle.db_core.specs.NamePlaces.{placed_name_cmp, placed_names_in_order, place_under_name, placed_names_from};
ghost use Rattle.db_core.specs.NameSeen.{name_seen};
ghost use Rattle.base_core.specs.ByteOrder.{precedes};
ghost use Rattle.base_core.specs.Sorted.{sorted_by};
ghost use Rattle.std.specs.List.Sorted.{IsPartitionPoint, IsSorted};
ghost use Rattle.std.specs.Prelude.{◌≡◌, ◌<◌, ◌≤◌, true, false, length, map, IfOk};

use pkg_core::{List, PackageView};
use std::alloc::{AllocError, Global};

/// The name of a package, and its place in the database, counted from 0.
#[derive(Clone, Copy)]
pub(crate) struct NamePlace<'a> {
    /// The name of the package.
    pub(crate) name: &'a [u8],
    /// The place of the package in the database, counted from 0.
    pub(crate) place: usize,
}

/// The names of packages in byte order, each with its place. Equal names keep the order of their
/// packages.
pub(crate) fn sorted_names<'a>(
    alloc: Global,
    packages: &List<'a, PackageView<'a>>,
) -> Result<Vec<NamePlace<'a>>, AllocError>
    // On Ok, the names and places are sorted in byte order of the names.
    ensures { IfOk result (λ names. map name_seen names.items
        ≡ placed_names_in_order (list_of (entries_in (list_value packages.now)))) }
{
    let mut names = names_of(alloc, packages)?;
    sort_names(&mut names)?;
    Ok(names)
}

/// The names of packages, in the order of the packages.
fn names_of<'a>(
    alloc: Global,
    packages: &List<'a, PackageView<'a>>,
) -> Result<Vec<NamePlace<'a>>, AllocError>
    // On Ok, the names and places are in the order of the packages.
    ensures { IfOk result (λ names. map name_seen names.items
        ≡ placed_names_from 0 (list_of (entries_in (list_value packages.now)))) }
{
    let mut names = Vec::with_capacity(alloc, packages.len())?;
    for i in 0..packages.len() {
        let name = name_at(packages, i);
        names.push(NamePlace { name, place: i })?;
    }
    Ok(names)
}

/// The name of the package at a place, counted from 0.
fn name_at<'a>(packages: &List<'a, PackageView<'a>>, i: usize) -> &'a [u8]
    // The index is that of an entry of the list.
    requires { i < count_of (entries_in (list_value packages.now)) }
    ensures { result.now ≡ package_name (entry_at_index (list_value packages.now) i) }
{
    // By the contract this never happens. `len` says that a list has less than 2^32 entries, so
    // `i + 1` does not overflow.
    if i >= packages.len() {
        unreachable!();
    }
    // `get` counts from 1.
    let package = packages.get(i + 1);
    package.info().name()
}

/// Sorts names with their places in byte order of the names. Equal names keep their order.
fn sort_names(names: &mut Vec<NamePlace<'_>>) -> Result<(), AllocError>
    // On Ok, the list is sorted by names, and equal names keep their order.
    ensures { IfOk result (λ _. map name_seen names.new.items
        ≡ sorted_by placed_name_cmp (map name_seen names.old.items)) }
{
    names.sort_by(|one, other| one.name.cmp(&other.name))?;
    Ok(())
}

/// How many names are before this one; the names are in byte order.
fn count_before(names: &[NamePlace<'_>], name: &[u8]) -> usize
    // The names are in byte order.
    requires { IsSorted placed_name_cmp (map name_seen names.now) }
    // The result is at most the number of names.
    ensures within { result ≤ length names.now }
    // The names before this index are before the given one, and the others are not.
    ensures point { IsPartitionPoint (λ n. precedes n.name name.now ≡ true)
        (λ n. precedes n.name name.now ≡ false) (map name_seen names.now) result }
{
    names.partition_point(|entry| entry.name.cmp(&name).is_lt())
}

/// The place of the first of the packages with this name, if one has it; the names are in byte
/// order.
pub(crate) fn place_of(names: &[NamePlace<'_>], name: &[u8]) -> Option<usize>
    // The names are in byte order.
    requires { IsSorted placed_name_cmp (map name_seen names.now) }
    ensures { result ≡ place_under_name name.now (map name_seen names.now) }
{
    // The index of the first name that is not before the given one.
    let at = count_before(names, name);
    if at == names.len() {
        return None;
    }
    if names[at].name != name {
        return None;
    }
    Some(names[at].place)
}
