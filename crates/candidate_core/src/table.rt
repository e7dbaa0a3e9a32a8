//! The table of names: for each name the candidates that have it or provide it, in rising order and
//! each once. The table borrows the names. Most names have one candidate, which needs no memory of
//! its own. The rule is in `docs/selection.md`, "What there is to choose from": by which names a
//! candidate meets a dependency. An entry of `provides` without version counts too, and one with a
//! conflict bit does not.
ghost use Rattle.std.specs.Prelude.{◌≡◌, ◌&&◌, ℕ, List, [], ◌∷◌, ◌++◌, IfOk, OnOk, None, Some, unwrap_or, not};
ghost use Rattle.std.specs.List.{list_any};
ghost use Rattle.std.specs.Str.{bytes_eq};
ghost use Rattle.indexmap.specs.IndexMap.{insert_entry};
ghost use Rattle.dep_core.specs.Dependency.{Dependency};
ghost use Rattle.dep_core.specs.Meets.{dependency};
ghost use Rattle.candidate_core.specs.Candidates.{offers_name};
ghost use Rattle.candidate_core.specs.Table.{HasPlaceAdded, first_entry_under_name, places_of_name, is_last_place, with_place_unless_last};

use crate::candidate::{CandId, Details};
use crate::dependencies::Deps;
use dep_core::Dep;
use indexmap::IndexMap;
use std::alloc::{AllocError, Global};
use std::marker::Model;
use std::slice;

/// The table of names: for each name, the places of the candidates that offer it.
pub struct Table<'a> {
    /// The allocator.
    alloc: Global,
    // For each name, the first candidate that offers it.
    singles: IndexMap<&'a [u8], CandId>,
    // For each name that two or more candidates offer, all these candidates.
    lists: IndexMap<&'a [u8], Vec<CandId>>,
}

/// Drops the parts in one call, so that a function that gives up has one drop and not many.
impl Drop for Table<'_> {
    fn drop(self) {
        let Table {
            alloc: _,
            singles: _,
            lists: _,
        } = self;
    }
}

impl<'a> Model for Table<'a> {
    ghost use Rattle.candidate_core.specs.Table.{Offered, offered_from_maps};

    ghost Value = { Offered };

    // The value has the names with their places, wherever the bytes of the names are.
    ghost view = { λ t. offered_from_maps t.singles.entries t.lists.entries };
}

impl<'a> Table<'a> {
    /// A table without names.
    pub fn new(alloc: Global) -> Table<'a>
        ensures { (name : List ℕ) → places_of_name result name ≡ [] }
    {
        Table {
            alloc,
            singles: IndexMap::new(alloc),
            lists: IndexMap::new(alloc),
        }
    }

    /// The places of the candidates that offer a name, in rising order.
    pub fn get(&self, name: &[u8]) -> &[CandId]
        ensures { result.now ≡ places_of_name self.now name.now }
    {
        // A name with a list has its first candidate in `singles` too; the list counts.
        match self.lists.get(name) {
            Some(ids) => ids.as_slice(),
            None => self.single(name),
        }
    }

    // The places of the candidates of a name that at most one candidate offers.
    fn single(&self, name: &[u8]) -> &[CandId]
        ensures { result.now ≡ unwrap_or (first_entry_under_name self.now.singles name.now) [] }
    {
        match self.singles.get(name) {
            Some(id) => slice::from_ref(id),
            None => &[],
        }
    }

    /// Adds the candidate `id`, which has these details, to each name that it offers.
    pub(crate) fn add_all(&mut self, details: &Details<'a>, id: CandId) -> Result<(), AllocError>
        // The place is added to the places of each name that the candidate offers.
        ensures { OnOk result (HasPlaceAdded (λ name. offers_name name details.now) id
            self.old self.new) }
    {
        self.add(details.name(), id)?;
        self.add_provided(&details.provides(), id)
    }

    // Adds the candidate `id` to the name of each entry of its provides, unless the entry is a
    // conflict.
    fn add_provided(&mut self, provides: &Deps<'a>, id: CandId) -> Result<(), AllocError>
        // The place is added to a name if an entry of `provides` has this name and is no conflict.
        ensures { OnOk result (HasPlaceAdded (λ name. list_any
            (λ (p : Dependency). not p.conflict && bytes_eq name p.name) provides.now) id
            self.old self.new) }
    {
        for i in 0..provides.len() {
            self.add_entry(&provides.get(i), id)?;
        }
        Ok(())
    }

    // Adds the candidate `id` to the name of an entry of its provides, unless the entry is a
    // conflict.
    fn add_entry(&mut self, entry: &Dep<'a>, id: CandId) -> Result<(), AllocError>
        // The place is added to the name of the entry, unless the entry is a conflict.
        ensures { OnOk result (HasPlaceAdded (λ name. not (dependency entry.now).conflict
            && bytes_eq name (dependency entry.now).name) id self.old self.new) }
    {
        if entry.conflict {
            return Ok(());
        }
        self.add(entry.name, id)
    }

    // Appends a candidate to those that offer a name, unless this candidate is the last of them
    // already: a candidate may provide one name twice, or its own name.
    fn add(&mut self, name: &'a [u8], id: CandId) -> Result<(), AllocError>
        // The place is added to the places of this name, and to those of no other name.
        ensures { OnOk result (HasPlaceAdded (λ other. bytes_eq other name.entry.now) id
            self.old self.new) }
    {
        match self.lists.get_mut(name) {
            Some(ids) => push_once(ids, id),
            None => self.add_to_single(name, id),
        }
    }

    // Adds a candidate to those of a name that has no list: at most one candidate offers it so far.
    fn add_to_single(&mut self, name: &'a [u8], id: CandId) -> Result<(), AllocError>
        // The name has no list yet.
        requires { first_entry_under_name self.old.lists name.now ≡ None }
        // The place is added to the places of this name, and to no other name.
        ensures { OnOk result (HasPlaceAdded (λ other. bytes_eq other name.entry.now) id
            self.old self.new) }
    {
        match self.singles.get(name).copied() {
            Some(first) => self.add_second(name, first, id),
            None => insert_single(&mut self.singles, name, id),
        }
    }

    // Adds a second candidate to the only one of a name, unless they are the same.
    fn add_second(&mut self, name: &'a [u8], first: CandId, id: CandId) -> Result<(), AllocError>
        // The name has no list yet, and `first` is its only candidate.
        requires list { first_entry_under_name self.old.lists name.now ≡ None }
        requires single { first_entry_under_name self.old.singles name.now ≡ Some (first ∷ []) }
        // The place is added to the places of this name, and to those of no other name.
        ensures { OnOk result (HasPlaceAdded (λ other. bytes_eq other name.entry.now) id
            self.old self.new) }
    {
        if first == id {
            return Ok(());
        }
        let ids = Vec::from_array(self.alloc, [first, id])?;
        insert_list(&mut self.lists, name, ids)
    }
}

// Adds a name with its first candidate to the map `singles`, which has the first candidate of each
// name.
fn insert_single<'a>(
    singles: &mut IndexMap<&'a [u8], CandId>,
    name: &'a [u8],
    id: CandId,
) -> Result<(), AllocError>
    // The map has its old entries, and this name with its candidate.
    ensures { OnOk result (singles.new.entries
        ≡ insert_entry (λ one other. bytes_eq one.now other.now) singles.old.entries name.entry
        id) }
{
    match singles.insert(name, id) {
        Ok(_) => Ok(()),
        Err(_) => Err(AllocError),
    }
}

// Adds a name with its two candidates to the map `lists`.
fn insert_list<'a>(
    lists: &mut IndexMap<&'a [u8], Vec<CandId>>,
    name: &'a [u8],
    ids: Vec<CandId>,
) -> Result<(), AllocError>
    // The map has its old entries, and this name with its candidates.
    ensures { OnOk result (lists.new.entries
        ≡ insert_entry (λ one other. bytes_eq one.now other.now) lists.old.entries name.entry
        ids) }
{
    lists.insert(name, ids)?;
    Ok(())
}

// Appends the place of a candidate to a list, unless it is the last place of the list already.
fn push_once(ids: &mut Vec<CandId>, id: CandId) -> Result<(), AllocError>
    ensures { OnOk result (ids.new.items ≡ with_place_unless_last ids.old.items id) }
{
    if is_last_place(ids, id) {
        return Ok(());
    }
    ids.push(id)?;
    Ok(())
}

// Whether this place is the last of the list.
fn is_last_place(ids: &[CandId], id: CandId) -> bool
    ensures { result ≡ is_last_place id ids.now }
{
    match ids.last() {
        Some(last) => *last == id,
        None => false,
    }
}
