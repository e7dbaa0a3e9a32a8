//! The conflicts of the choices by their names, and the search for a choice whose conflict a
//! further candidate meets. The rule is in `docs/selection.md`, "What satisfies world", 2: no
//! conflict of a selected package is met by another one.
ghost use Rattle.std.specs.Prelude.{◌≡◌, ◌<◌, ◌∷◌, ◌++◌, ℕ, List, [], IfOk, OnOk, Some, find, length, slice_get};
ghost use Rattle.std.specs.Option.{option_map};
ghost use Rattle.dep_core.specs.Dependency.{Dependency};
ghost use Rattle.dep_core.specs.Meets.{dependency};
ghost use Rattle.pool_core.specs.candidate_core.Candidates.{Candidate, meets_dependency};
ghost use Rattle.pool_core.specs.candidate_core.PackageMatches.{AreMatchesAmong};
ghost use Rattle.pool_core.specs.candidate_core.Packages.{candidates_of_packages};
ghost use Rattle.search_tables.specs.Conflicts.{AreConflictsOf, HasDepends, IsConflictOf, conflicts_in, conflicts_of_name_in};

use crate::name_table::NameTable;
use dep_core::Dep;
use pool_core::{CandId, Deps, PackageDep, PackageMatches};
use std::alloc::{AllocError, Global};
use std::marker::Model;

/// A conflict of a choice, with the choice, and with the conflict's index among the choice's
/// dependencies.
#[derive(Drop)]
pub struct ListedConflict<'p> {
    /// The choice that has the conflict.
    by: CandId,
    /// The conflict.
    dep: Dep<'p>,
    /// The index of the conflict among the dependencies of the choice, counted from 0.
    index: usize,
}

impl<'p> Model for ListedConflict<'p> {
    ghost use Rattle.dep_core.specs.Meets.{dependency};
    ghost use Rattle.search_tables.specs.Conflicts.{ListedConflictValue};

    ghost Value = { ListedConflictValue };

    // In this order: the choice, the conflict, and its index.
    ghost view = { λ listed. (listed.by, dependency listed.dep, listed.index) };
}

impl<'p> ListedConflict<'p> {
    // The choice that has the conflict.
    fn by(&self) -> CandId
        ensures { result ≡ self.now.0 }
    {
        self.by
    }

    // Whether a candidate meets the conflict. Results for long versions are remembered.
    fn is_met_by(&self, id: CandId, matches: &mut PackageMatches<'_>) -> Result<bool, AllocError>
        requires within { id < length (candidates_of_packages matches.old.packages.now) }
        // This conflict is a dependency of its choice, at its index.
        requires listed { IsConflictOf (candidates_of_packages matches.old.packages.now) self.now }
        // The remembered results are right for the packages, before the call and after it.
        requires matches { AreMatchesAmong (candidates_of_packages matches.old.packages.now)
            matches.old }
        // The result says whether the candidate at the place meets this conflict.
        ensures meets { IfOk result (λ meets. (c : Candidate)
            → slice_get (candidates_of_packages matches.old.packages.now) id ≡ Some c
            → meets ≡ meets_dependency self.now.1 c) }
        ensures matches { OnOk result (AreMatchesAmong
            (candidates_of_packages matches.old.packages.now) matches.new) }
    {
        let held = PackageDep {
            dep: &self.dep,
            package: self.by.place as usize,
            index: self.index,
        };
        matches.meets(id.place as usize, &held)
    }
}

/// The conflicts of the choices, under their names. The conflicts of one name are in the order of
/// the choices.
#[derive(Drop)]
pub struct Conflicts<'p> {
    /// For each name, the conflicts of this name that the choices have.
    pub by_name: NameTable<'p, ListedConflict<'p>>,
}

impl<'p> Conflicts<'p> {
    /// A table without conflicts.
    pub fn new(alloc: Global) -> Conflicts<'p>
        ensures { result.by_name ≡ [] }
    {
        Conflicts {
            by_name: NameTable::new(alloc),
        }
    }

    /// Adds the conflicts among `depends`, the dependencies of the candidate `by`. Each is appended
    /// to the conflicts of its name.
    pub fn add(&mut self, depends: &Deps<'p>, by: CandId) -> Result<(), AllocError>
        // Under each name, the conflicts of these dependencies that have the name are appended.
        ensures conflicts { OnOk result ((name : List ℕ) → conflicts_in self.new.by_name name
            ≡ conflicts_in self.old.by_name name ++ conflicts_of_name_in name by depends.now) }
        // If `depends` are the dependencies of the candidate `by`, each entry of the table is still
        // a conflict of its candidate, at its index.
        ensures listed { OnOk result ((candidates : List Candidate)
            → HasDepends candidates by depends.now → AreConflictsOf candidates self.old.by_name
            → AreConflictsOf candidates self.new.by_name) }
    {
        for i in 0..depends.len() {
            self.add_one(depends.get(i), by, i)?;
        }
        Ok(())
    }

    // Adds the dependency that the candidate `by` has at an index to the table, if the dependency
    // is a conflict.
    fn add_one(&mut self, dep: Dep<'p>, by: CandId, index: usize) -> Result<(), AllocError>
        // The dependency is appended under its name, if the dependency is a conflict.
        ensures conflicts { OnOk result ((name : List ℕ) → conflicts_in self.new.by_name name
            ≡ conflicts_in self.old.by_name name
            ++ conflicts_of_name_in name by (dependency dep.entry ∷ [])) }
        // If the candidate has this dependency there, each entry of the table is still a conflict
        // of its candidate, at its index.
        ensures listed { OnOk result ((candidates : List Candidate)
            → IsConflictOf candidates (by, dependency dep.entry, index)
            → AreConflictsOf candidates self.old.by_name
            → AreConflictsOf candidates self.new.by_name) }
    {
        if !dep.conflict {
            return Ok(());
        }
        self.by_name
            .add(dep.name, ListedConflict { by, dep, index })?;
        Ok(())
    }

    /// Removes the conflicts of the candidate that was added last; `depends` are its dependencies.
    /// In the clause, `front` gives for each name the conflicts before that candidate was added.
    pub fn pop_all(&mut self, depends: &Deps<'_>)
        // If the last conflicts under each name are those of these dependencies, they are removed.
        ensures conflicts { (by : ℕ) (front : List ℕ → List (ℕ × Dependency)) →
            ((name : List ℕ) → conflicts_in self.old.by_name name
            ≡ front name ++ conflicts_of_name_in name by depends.now) →
            (name : List ℕ) → conflicts_in self.new.by_name name ≡ front name }
        // The entries that remain are still conflicts of their candidates.
        ensures listed { (candidates : List Candidate) → AreConflictsOf candidates self.old.by_name
            → AreConflictsOf candidates self.new.by_name }
    {
        let mut left = depends.len();
        // From the last dependency on: then each conflict is the last one under its name.
        while left > 0 {
            left -= 1;
            self.take_one_away(&depends.get(left));
        }
    }

    // Removes the last conflict under the dependency's name, if the dependency is a conflict.
    fn take_one_away(&mut self, dep: &Dep<'_>)
        // If the last conflict under its name is this dependency, it is removed.
        ensures conflicts { (by : ℕ) (front : List ℕ → List (ℕ × Dependency)) →
            ((name : List ℕ) → conflicts_in self.old.by_name name
            ≡ front name ++ conflicts_of_name_in name by (dependency dep.now ∷ [])) →
            (name : List ℕ) → conflicts_in self.new.by_name name ≡ front name }
        // The entries that remain are still conflicts of their candidates.
        ensures listed { (candidates : List Candidate) → AreConflictsOf candidates self.old.by_name
            → AreConflictsOf candidates self.new.by_name }
    {
        if dep.conflict {
            self.by_name.pop(dep.name);
        }
    }

    /// The first choice that has a conflict of this name which the candidate `id` meets; None if
    /// there is no such choice. Results for long versions are remembered.
    ///
    /// # Errors
    ///
    /// Out of memory.
    pub fn choice_against(
        &self,
        name: &[u8],
        id: CandId,
        matches: &mut PackageMatches<'_>,
    ) -> Result<Option<CandId>, AllocError>
        requires within { id < length (candidates_of_packages matches.old.packages.now) }
        // Each entry of the table is a conflict of its candidate, at its index.
        requires listed { AreConflictsOf (candidates_of_packages matches.old.packages.now)
            self.now.by_name }
        // The remembered results are right for the packages, before the call and after it.
        requires matches { AreMatchesAmong (candidates_of_packages matches.old.packages.now)
            matches.old }
        // The result is the choice of the first conflict that the candidate meets, if there is one.
        ensures found { IfOk result (λ found. (details : Candidate)
            → slice_get (candidates_of_packages matches.old.packages.now) id ≡ Some details
            → found ≡ option_map (λ (c : ℕ × Dependency). c.0)
            (find (λ (c : ℕ × Dependency). meets_dependency c.1 details)
            (conflicts_in self.now.by_name name.now))) }
        ensures matches { OnOk result (AreMatchesAmong
            (candidates_of_packages matches.old.packages.now) matches.new) }
    {
        for listed in self.by_name.get(name) {
            let is_met = listed.is_met_by(id, matches)?;
            if is_met {
                return Ok(Some(listed.by()));
            }
        }
        Ok(None)
    }
}
