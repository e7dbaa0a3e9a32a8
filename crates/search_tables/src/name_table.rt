//! Items by name; the items of each name are in the order in which they were added. The table
//! borrows the names. No rule of a document: `conflicts` stores the conflicts of the choices in
//! such a table. `install_ifs` stores under each name the ranks of those install-ifs that have an
//! entry of this name.
ghost use Rattle.std.specs.Prelude.{◌≡◌, ℕ, List, [], ◌∷◌, ◌++◌, OnOk, if◌then◌else◌};
ghost use Rattle.std.specs.Str.{bytes_eq};
ghost use Rattle.search_tables.specs.NameTable.{items_under_name, without_last};

use indexmap::IndexMap;
use std::alloc::{AllocError, Global};
use std::marker::Model;

/// A table that has for each name a list of items.
#[derive(Drop)]
pub struct NameTable<'p, T> {
    /// The allocator.
    alloc: Global,
    /// The items of each name, the earliest first.
    by_name: IndexMap<&'p [u8], Vec<T>>,
}

impl<'p, T> Model for NameTable<'p, T> {
    ghost use Rattle.std.specs.Prelude.{ℕ, List};
    ghost use Rattle.search_tables.specs.NameTable.{names_and_items};

    ghost Value = { List (List ℕ × List T) };

    // The value has the names with their items, wherever the bytes of the names are.
    ghost view = { λ t. names_and_items t.by_name.entries };
}

impl<'p, T: Drop> NameTable<'p, T> {
    /// A table without items.
    pub fn new(alloc: Global) -> NameTable<'p, T>
        ensures { result ≡ [] }
    {
        NameTable {
            alloc,
            by_name: IndexMap::new(alloc),
        }
    }

    /// The items of a name; none if no item of the name was added.
    pub fn get(&self, name: &[u8]) -> &[T]
        ensures { result.now ≡ items_under_name self.now name.now }
    {
        match self.by_name.get(name) {
            Some(items) => items.as_slice(),
            None => &[],
        }
    }

    /// Appends an item to the items of a name. The items of other names are unchanged.
    pub fn add(&mut self, name: &'p [u8], item: T) -> Result<(), AllocError>
        // The item is appended under this name. Nothing changes under other names.
        ensures { OnOk result ((other : List ℕ) → items_under_name self.new other
            ≡ items_under_name self.old other
            ++ (if bytes_eq other name.entry.now then item ∷ [] else [])) }
    {
        match self.by_name.get_mut(name) {
            Some(items) => {
                items.push(item)?;
                Ok(())
            }
            None => {
                let mut items = Vec::new(self.alloc);
                items.push(item)?;
                self.by_name.insert(name, items)?;
                Ok(())
            }
        }
    }

    /// Removes the last item of a name, if there is one; other names are unchanged.
    pub fn pop(&mut self, name: &[u8])
        // The last item under this name is removed. Nothing changes under other names.
        ensures { (other : List ℕ) → items_under_name self.new other
            ≡ (if bytes_eq other name.now then without_last (items_under_name self.old other)
            else items_under_name self.old other) }
    {
        let Some(items) = self.by_name.get_mut(name) else {
            return;
        };
        items.pop();
    }
}
