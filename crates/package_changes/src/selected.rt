//! The selected candidates: the candidate at a place, and a table from their names to their places.
//! No document has a rule for this: the table serves `placed.rt` and `stays.rt`, so that the
//! selection is not searched for each name. `docs/selection.md`, "What satisfies world", 3, says
//! that a selection has at most one candidate of a name.
ghost use Rattle.package_changes.specs.Changes.{is_candidate_named};
ghost use Rattle.package_changes.specs.Placed.{selected_place};
ghost use Rattle.package_changes.specs.SelectedNames.{place_paired_with_name};
ghost use Rattle.std.specs.Option.{option_or};
ghost use Rattle.solve_core.specs.candidate_core.Rank.{candidate_at, candidate_at_passes};
ghost use Rattle.solve_core.specs.candidate_core.Values.{candidate_value};
ghost use Rattle.std.specs.Prelude.{◌≡◌, ℕ, List, [], Some, None, if◌then◌else◌, bytes_eq, option_map, IfOk, OnOk};

use indexmap::IndexMap;
use solve_core::{CandId, Candidate, Sealed, Trace};
use std::alloc::{AllocError, Global};
use std::marker::Model;

/// The candidate at the place `id` of the pool, if there is one.
pub fn candidate_at<'a>(pool: &Sealed<'a>, id: CandId) -> Option<Candidate<'a>>
    ensures { option_map candidate_value result ≡ candidate_at pool.now id }
{
    if id.place as usize >= pool.len() {
        return None;
    }
    Some(pool.candidate(id))
}

/// The names of the selected candidates, each with the place of the first selected candidate that
/// has the name.
#[derive(Drop)]
pub struct SelectedNames<'a> {
    /// The place of the first selected candidate of each name.
    by_name: IndexMap<&'a [u8], u32>,
}

impl<'a> Model for SelectedNames<'a> {
    ghost use Rattle.std.specs.Prelude.{ℕ, List};
    ghost use Rattle.package_changes.specs.SelectedNames.{names_and_places};

    // Contracts see the table as a list of names, each with a place.
    ghost Value = { List (List ℕ × ℕ) };

    // The entries of the map, in their order.
    ghost view = { λ s. names_and_places s.by_name.entries };
}

impl<'a> SelectedNames<'a> {
    /// The table of the candidates at the places `trace` of the pool.
    pub fn of(
        alloc: Global,
        pool: &Sealed<'a>,
        trace: &Trace,
    ) -> Result<SelectedNames<'a>, AllocError>
        // For each name, the table gives the place of the first selected candidate with this name.
        ensures { IfOk result (λ names. (name : List ℕ)
            → place_paired_with_name name names ≡ selected_place pool.now trace.now name) }
    {
        let mut names = SelectedNames::new(alloc);
        for i in 0..trace.len() {
            names.add(pool, trace.get(i))?;
        }
        Ok(names)
    }

    // A table without names.
    fn new(alloc: Global) -> SelectedNames<'a>
        ensures { result ≡ [] }
    {
        SelectedNames {
            by_name: IndexMap::new(alloc),
        }
    }

    /// The place of the first selected candidate with this name, if one has it.
    pub fn place_of(&self, name: &[u8]) -> Option<u32>
        ensures { result ≡ place_paired_with_name name.now self.now }
    {
        match self.by_name.get(name) {
            Some(place) => Some(*place),
            None => None,
        }
    }

    // Adds the candidate at the place `id` to the table, if there is one and the table lacks its
    // name.
    fn add(&mut self, pool: &Sealed<'a>, id: CandId) -> Result<(), AllocError>
        // The place is stored for the candidate's name, unless the name has a place already.
        ensures { OnOk result ((name : List ℕ) → place_paired_with_name name self.new
            ≡ option_or (place_paired_with_name name self.old)
            (if candidate_at_passes pool.now (is_candidate_named name) id then Some id else None)) }
    {
        match pool.at(id) {
            None => Ok(()),
            Some(details) => {
                self.add_name(details.name(), id.place)?;
                Ok(())
            }
        }
    }

    // Adds a name with a place to the table, unless the table has the name already.
    fn add_name(&mut self, name: &'a [u8], place: u32) -> Result<(), AllocError>
        // The place is stored for this name, unless the name has a place already.
        ensures { OnOk result ((other : List ℕ) → place_paired_with_name other self.new
            ≡ option_or (place_paired_with_name other self.old)
            (if bytes_eq name.entry.now other then Some place else None)) }
    {
        match self.by_name.get(name) {
            // The first candidate of a name counts.
            Some(_) => Ok(()),
            None => {
                self.by_name.insert(name, place)?;
                Ok(())
            }
        }
    }
}
