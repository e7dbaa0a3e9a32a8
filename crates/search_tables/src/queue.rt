//! The queue of the dependencies that world and the choices raise, in the order in which they must
//! be met. The rule is in `docs/selection.md`, "Which selection is taken": first the entries of
//! world, then the dependencies of each choice in the order chosen; conflicts are no needs.
ghost use Rattle.std.specs.Prelude.{◌≡◌, ◌∷◌, ◌++◌, [], OnOk, None, Some};
ghost use Rattle.dep_core.specs.Meets.{dependency};
ghost use Rattle.search_tables.specs.Queue.{raised_deps, raised_deps_from};

use dep_core::{Dep, World};
use pool_core::{CandId, Deps};
use std::alloc::AllocError;
use std::marker::Model;

/// A dependency that must be met, with its origin: the choice that has the dependency, or world,
/// and the index of the dependency there.
#[derive(Drop)]
pub struct RaisedDep<'p> {
    /// The dependency, which is no conflict.
    dep: Dep<'p>,
    /// The choice that has the dependency; None for an entry of world.
    by: Option<CandId>,
    /// The index of the dependency among those of the choice, or among the entries of world,
    /// counted from 0.
    index: usize,
}

impl<'p> Model for RaisedDep<'p> {
    ghost use Rattle.search_tables.specs.Queue.{RaisedDepValue};
    ghost use Rattle.dep_core.specs.Meets.{dependency};

    ghost Value = { RaisedDepValue };

    // In this order: the dependency, the choice that has it, and its index.
    ghost view = { λ r. (dependency r.dep, r.by, r.index) };
}

impl<'p> RaisedDep<'p> {
    /// The dependency that is raised.
    pub fn dep(&self) -> &Dep<'p>
        ensures { dependency result.now ≡ self.now.0 }
    {
        &self.dep
    }

    /// The choice that has the dependency; None for an entry of world.
    pub fn by(&self) -> Option<CandId>
        ensures { result ≡ self.now.1 }
    {
        self.by
    }

    /// The index of the dependency among those of the choice, or among the entries of world,
    /// counted from 0.
    pub fn index(&self) -> usize
        ensures { result ≡ self.now.2 }
    {
        self.index
    }
}

/// The state of the queue and of the two cursors before a choice, to which they return if the
/// choice is taken back.
#[derive(Clone, Copy)]
pub struct Checkpoint {
    /// How many dependencies the queue had.
    pub queue_len: usize,
    /// The cursor of the queue: the dependencies before it are met.
    pub cursor: usize,
    /// The cursor of the install-ifs: none of those before it triggers its candidate.
    pub asking_cursor: usize,
}

/// Appends the entries of world that are no conflicts to the queue.
pub fn queue_world<'p>(queue: &mut Vec<RaisedDep<'p>>, world: &'p World) -> Result<(), AllocError>
    ensures { OnOk result (queue.new.items ≡ queue.old.items
        ++ raised_deps None world.entry.now) }
{
    for i in 0..world.len() {
        queue_one(queue, world.entry(i), None, i)?;
    }
    Ok(())
}

/// Appends the dependencies of the choice `by` that are no conflicts to the queue.
pub fn queue_all<'p>(
    queue: &mut Vec<RaisedDep<'p>>,
    deps: &Deps<'p>,
    by: CandId,
) -> Result<(), AllocError>
    ensures { OnOk result (queue.new.items ≡ queue.old.items
        ++ raised_deps (Some by) deps.now) }
{
    for i in 0..deps.len() {
        queue_one(queue, deps.get(i), Some(by), i)?;
    }
    Ok(())
}

// Appends a dependency to the queue, unless it is a conflict. `by` is the choice that has the
// dependency at this index; None for an entry of world.
fn queue_one<'p>(
    queue: &mut Vec<RaisedDep<'p>>,
    dep: Dep<'p>,
    by: Option<CandId>,
    index: usize,
) -> Result<(), AllocError>
    // The dependency is appended with the choice and the index, unless it is a conflict.
    ensures { OnOk result (queue.new.items ≡ queue.old.items
        ++ raised_deps_from by index (dependency dep.entry ∷ [])) }
{
    if !dep.conflict {
        queue.push(RaisedDep { dep, by, index })?;
    }
    Ok(())
}
