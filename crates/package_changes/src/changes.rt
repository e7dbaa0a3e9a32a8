//! The packages that change, without the kept ones.
//! The rule is in `docs/commands.md`, "`add` and `del`", part "What is reported": a line for each
//! package that changes, in byte order of the names. `PlacedNames` has the kept packages, too.
ghost use Rattle.package_changes.specs.Changes.{changes_of};
ghost use Rattle.package_changes.specs.Placed.{change_in, placed_changes_of, replacement_of};
ghost use Rattle.package_changes.specs.Seen.{changes_seen, placed_change_seen, placed_name_seen, placed_names_seen, placed_replacement_from_parts};
ghost use Rattle.std.specs.List.{filter_map};
ghost use Rattle.std.specs.Prelude.{◌≡◌, ◌<◌, ◌==◌, ◌++◌, Some, length, map, option_to_list, slice_get, IfOk, OnOk};

use crate::change::PlacedChange;
use crate::placed::{PlacedName, PlacedNames};
use base_core::Words;
use own_core::Db;
use solve_core::{Sealed, Trace};
use std::alloc::{AllocError, Global};

/// The changes of packages that a selection makes, in byte order of the packages' names.
#[derive(Drop)]
pub struct Changes<'a> {
    /// The changes, in byte order of the packages' names.
    pub(crate) list: Vec<PlacedChange<'a>>,
}

impl<'a> Changes<'a> {
    /// The changes if candidates replace the packages of the database. `trace` are the places of
    /// these candidates in the pool, and the names `again` are to be installed again. Takes as long
    /// as `PlacedNames::of`.
    pub fn of(
        alloc: Global,
        db: &Db<'a>,
        pool: &Sealed<'a>,
        trace: &Trace,
        again: &Words,
    ) -> Result<Changes<'a>, AllocError>
        // The changes are those of the definition `changes_of`, which has no places.
        ensures changes { IfOk result (λ changes. map (λ c. c.change) (changes_seen changes)
            ≡ changes_of (replacement_of
            (placed_replacement_from_parts db.now pool.now trace.now again.now))) }
        // With their places, the changes are those of the definition `placed_changes_of`.
        ensures places { IfOk result (λ changes. changes_seen changes
            ≡ placed_changes_of (placed_replacement_from_parts db.now pool.now trace.now again.now)) }
    {
        let names = PlacedNames::of(alloc, db, pool, trace, again)?;
        Changes::of_names(alloc, &names)
    }

    /// The changes of those names whose packages change, in the order of the names.
    pub fn of_names(alloc: Global, names: &PlacedNames<'a>) -> Result<Changes<'a>, AllocError>
        ensures { IfOk result (λ changes. changes_seen changes
            ≡ filter_map change_in (placed_names_seen names.now)) }
    {
        let mut list = Vec::new(alloc);
        for name in &names.list {
            push_change(&mut list, name)?;
        }
        Ok(Changes { list })
    }

    /// How many packages change.
    pub fn len(&self) -> usize
        ensures { result ≡ length (changes_seen self.now) }
    {
        self.list.len()
    }

    /// Whether nothing changes.
    pub fn is_empty(&self) -> bool
        ensures { result ≡ (length (changes_seen self.now) == 0) }
    {
        self.list.is_empty()
    }

    /// The change with index i among the changes, counted from 0.
    pub fn get(&self, i: usize) -> &PlacedChange<'a>
        // `i` is below the number of changes.
        requires { i < length (changes_seen self.now) }
        ensures { slice_get (changes_seen self.now) i ≡ Some (placed_change_seen result.now) }
    {
        &self.list[i]
    }
}

/// Appends the change of a name to the list of changes, if the name has a change.
fn push_change<'a>(
    list: &mut Vec<PlacedChange<'a>>,
    name: &PlacedName<'a>,
) -> Result<(), AllocError>
    // The change of this name is appended, if there is one.
    ensures { OnOk result (map placed_change_seen list.new.items
        ≡ map placed_change_seen list.old.items
        ++ option_to_list (change_in (placed_name_seen name.now))) }
{
    match name.change {
        None => Ok(()),
        Some(change) => {
            let (old, new) = (name.old, name.new);
            list.push(PlacedChange { change, old, new })?;
            Ok(())
        }
    }
}
