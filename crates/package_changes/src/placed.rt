//! What happens to each package, name by name, also to the kept ones. `Changes` and the reading of
//! added packages (`change_outcome`) use it. The rules are in `docs/commands.md`, "`add` and
//! `del`", part "What is reported", and "`upgrade` and `fix`"; the terms in `docs/names.md`, "A
//! change of what is installed".
ghost use Rattle.own_core.specs.adb_fields.Repeated.{package_name};
ghost use Rattle.own_core.specs.adb_schema.Views.{package_value};
ghost use Rattle.own_core.specs.PlanLists.{sorted_distinct_names};
ghost use Rattle.own_core.specs.db_core.Packages.{is_package_named};
ghost use Rattle.own_core.specs.db_core.Seen.{packages_of};
ghost use Rattle.package_changes.specs.Changes.{change_between};
ghost use Rattle.package_changes.specs.Placed.{candidates_at, candidate_at_new_place, name_with_change_and_given_places, names_with_change_and_old_and_pool_place};
ghost use Rattle.package_changes.specs.Seen.{change_seen, placed_name_seen, placed_names_seen, placed_replacement_from_parts};
ghost use Rattle.package_changes.specs.SelectedNames.{name_with_change_and_places_by_table};
ghost use Rattle.solve_core.specs.candidate_core.Candidates.{Candidate as CandidateValue};
ghost use Rattle.solve_core.specs.candidate_core.Rank.{candidate_at};
ghost use Rattle.solve_core.specs.candidate_core.Values.{candidate_value};
ghost use Rattle.std.specs.Option.{ForSome};
ghost use Rattle.std.specs.List.{list_any, position_from};
ghost use Rattle.std.specs.Prelude.{◌≡◌, ◌<◌, ◌==◌, ◌++◌, Some, length, map, bytes_eq, option_map, option_and_then, option_to_list, slice_get, IfOk, OnOk};

use crate::change::{Change, install, purge, replace};
use crate::names::sorted_distinct_names;
use crate::selected::{SelectedNames, candidate_at};
use base_core::Words;
use own_core::{Db, PackageView};
use solve_core::{CandId, Candidate, Sealed, SortedWords, Trace};
use std::alloc::{AllocError, Global};
use std::marker::PhantomData;

/// A name of a package of the database or of a selected candidate, and what happens to the package.
#[derive(Clone, Copy)]
pub struct PlacedName<'a> {
    /// The name.
    pub name: &'a [u8],
    /// The change of the package, if it changes.
    pub change: Option<Change<'a>>,
    /// The place of the package in the database before the change, counted from 0, if it was
    /// installed.
    pub old: Option<usize>,
    /// The place of the selected candidate in the list of all candidates, counted from 0, if a
    /// candidate with this name is selected.
    pub(crate) new: Option<u32>,
}

impl<'a> PlacedName<'a> {
    /// The selected candidate with this name, if there is one.
    pub fn candidate(&self, pool: &Sealed<'a>) -> Option<Candidate<'a>>
        ensures { option_map candidate_value result
            ≡ candidate_at_new_place pool.now (placed_name_seen self.now) }
    {
        candidate_of(pool, self.new)
    }
}

/// The names of the packages of a database and of the selected candidates, in byte order, each
/// once, with what happens to the package of each name.
#[derive(Drop)]
pub struct PlacedNames<'a> {
    /// The names with their changes, in byte order of the names.
    pub(crate) list: Vec<PlacedName<'a>>,
}

impl<'a> PlacedNames<'a> {
    /// What happens to each package, if candidates replace the packages of the database. `trace`
    /// are the places of these candidates in the pool, and the names `again` are to be installed
    /// again. The time is in proportion to n log n, for n packages, candidates and names to be
    /// installed again.
    pub fn of(
        alloc: Global,
        db: &Db<'a>,
        pool: &Sealed<'a>,
        trace: &Trace,
        again: &Words,
    ) -> Result<PlacedNames<'a>, AllocError>
        ensures { IfOk result (λ names. placed_names_seen names
            ≡ names_with_change_and_old_and_pool_place
            (placed_replacement_from_parts db.now pool.now trace.now again.now)) }
    {
        // The selected candidates by their names, all names, and the names of `again`, sorted.
        let selected = SelectedNames::of(alloc, pool, trace)?;
        let names = names_before_and_selected(alloc, db, pool, trace)?;
        let sorted = SortedWords::of(alloc, again)?;
        let list = placed_names(alloc, db, pool, &sorted, &selected, &names)?;
        Ok(PlacedNames { list })
    }

    /// How many names there are.
    pub fn len(&self) -> usize
        ensures { result ≡ length (placed_names_seen self.now) }
    {
        self.list.len()
    }

    /// Whether there is no name.
    pub fn is_empty(&self) -> bool
        ensures { result ≡ (length (placed_names_seen self.now) == 0) }
    {
        self.list.is_empty()
    }

    /// The name with index i, counted from 0, and what happens to its package.
    pub fn get(&self, i: usize) -> &PlacedName<'a>
        // `i` is below the number of names.
        requires { i < length (placed_names_seen self.now) }
        ensures { slice_get (placed_names_seen self.now) i ≡ Some (placed_name_seen result.now) }
    {
        &self.list[i]
    }
}

/// The names of the packages of a database and of the selected candidates, in byte order, each
/// once.
fn names_before_and_selected<'a>(
    alloc: Global,
    db: &Db<'a>,
    pool: &Sealed<'a>,
    trace: &Trace,
) -> Result<Vec<&'a [u8]>, AllocError>
    // The names of the packages before and of the selected candidates, in byte order, each once.
    ensures { IfOk result (λ names. map (λ n. n.now) names.items
        ≡ sorted_distinct_names (map package_name (packages_of db.now)
        ++ map (λ (c : CandidateValue). c.name) (candidates_at pool.now trace.now))) }
{
    let mut names = Vec::new(alloc);
    push_old_names(&mut names, db)?;
    push_selected_names(&mut names, pool, trace)?;
    sorted_distinct_names(names)
}

/// Appends to `names` the names of the packages of a database, in the order of the database.
fn push_old_names<'a>(names: &mut Vec<&'a [u8]>, db: &Db<'a>) -> Result<(), AllocError>
    ensures { OnOk result (map (λ n. n.now) names.new.items
        ≡ map (λ n. n.now) names.old.items ++ map package_name (packages_of db.now)) }
{
    for i in 0..db.len() {
        names.push(name_at(db, i, PhantomData))?;
    }
    Ok(())
}

/// The name of the package at place `i` of a database, counted from 0. `_mark` serves only the
/// borrow checker: it does not know the parts of a view that is made and lent here unless the
/// signature names the view.
fn name_at<'a>(db: &Db<'a>, i: usize, _mark: PhantomData<PackageView<'a>>) -> &'a [u8]
    // The place is one of the database.
    requires { i < length (packages_of db.now) }
    ensures { option_map package_name (slice_get (packages_of db.now) i) ≡ Some result.now }
{
    let pkg = db.package(i);
    name_of(&pkg, PhantomData)
}

/// The name of a package, as its information has it.
fn name_of<'a>(pkg: &PackageView<'a>, _mark: PhantomData<PackageView<'a>>) -> &'a [u8]
    ensures { result.now ≡ package_name (package_value pkg.now) }
{
    let info = pkg.info();
    info.name()
}

/// Appends to `names` the names of the selected candidates, in the order in which they were chosen.
fn push_selected_names<'a>(
    names: &mut Vec<&'a [u8]>,
    pool: &Sealed<'a>,
    trace: &Trace,
) -> Result<(), AllocError>
    // The names of the selected candidates are appended.
    ensures { OnOk result (map (λ n. n.now) names.new.items
        ≡ map (λ n. n.now) names.old.items
        ++ map (λ (c : CandidateValue). c.name) (candidates_at pool.now trace.now)) }
{
    for i in 0..trace.len() {
        push_selected_name(names, pool, trace.get(i))?;
    }
    Ok(())
}

/// Appends to `names` the name of the candidate at the place `id` of the pool, if there is one.
fn push_selected_name<'a>(
    names: &mut Vec<&'a [u8]>,
    pool: &Sealed<'a>,
    id: CandId,
) -> Result<(), AllocError>
    // The name of the candidate at this place is appended, if there is one.
    ensures { OnOk result (map (λ n. n.now) names.new.items
        ≡ map (λ n. n.now) names.old.items
        ++ map (λ (c : CandidateValue). c.name) (option_to_list (candidate_at pool.now id))) }
{
    match pool.at(id) {
        None => Ok(()),
        Some(details) => {
            names.push(details.name())?;
            Ok(())
        }
    }
}

/// What happens to the packages with these names, in the order of the names. `again` has the names
/// of the packages to be installed again, and `selected` the place of the selected candidate of
/// each name.
fn placed_names<'a>(
    alloc: Global,
    db: &Db<'a>,
    pool: &Sealed<'a>,
    again: &SortedWords<'_>,
    selected: &SelectedNames<'a>,
    names: &[&'a [u8]],
) -> Result<Vec<PlacedName<'a>>, AllocError>
    // Each name with its change and its two places.
    ensures { IfOk result (λ list. map placed_name_seen list.items
        ≡ map (name_with_change_and_places_by_table
        (packages_of db.now) pool.now again.now selected.now)
        (map (λ n. n.now) names.now)) }
{
    let mut list = Vec::new(alloc);
    for name in names {
        list.push(placed_name(db, pool, again, name, selected.place_of(name)))?;
    }
    Ok(list)
}

/// What happens to the package with this name, whose selected candidate has the place `new`.
/// `again` has the names of the packages that are to be installed again.
fn placed_name<'a>(
    db: &Db<'a>,
    pool: &Sealed<'a>,
    again: &SortedWords<'_>,
    name: &'a [u8],
    new: Option<u32>,
) -> PlacedName<'a>
    // The result is that of the definition, in which the old place is that of the first package
    // with this name in the database.
    ensures { placed_name_seen result
        ≡ name_with_change_and_given_places (packages_of db.now) pool.now again.now name.entry.now
        (position_from (is_package_named name.entry.now) 0 (packages_of db.now)) new }
{
    let old = db.find(name);
    let change = change_between(db, pool, again, name, old, new);
    PlacedName {
        name,
        change,
        old,
        new,
    }
}

/// What happens to the package with this name, which has the place `old` in the database and whose
/// candidate has the place `new`.
fn change_between<'a>(
    db: &Db<'a>,
    pool: &Sealed<'a>,
    again: &SortedWords<'_>,
    name: &'a [u8],
    old: Option<usize>,
    new: Option<u32>,
) -> Option<Change<'a>>
    // The old place, if there is one, is a place of the database.
    requires { ForSome old (λ i. i < length (packages_of db.now)) }
    // The change from the package at `old` to the candidate at `new`; each may be absent.
    ensures { option_map change_seen result
        ≡ change_between (list_any (bytes_eq name.entry.now) again.now) name.entry.now
        (option_and_then (slice_get (packages_of db.now)) old)
        (option_and_then (candidate_at pool.now) new) }
{
    match (old, candidate_of(pool, new)) {
        (None, None) => None,
        (None, Some(c)) => Some(install(name, &c)),
        (Some(i), None) => Some(purge(name, db, i, PhantomData)),
        (Some(i), Some(c)) => replace(name, db, i, &c, again.has(name), PhantomData),
    }
}

/// The candidate at a place of the pool, if there is a place and a candidate there.
fn candidate_of<'a>(pool: &Sealed<'a>, place: Option<u32>) -> Option<Candidate<'a>>
    ensures { option_map candidate_value result
        ≡ option_and_then (candidate_at pool.now) place }
{
    match place {
        None => None,
        Some(place) => candidate_at(pool, CandId { place }),
    }
}
