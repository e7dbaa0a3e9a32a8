//! Why no selection satisfies a world: a refutation. The rules are in `docs/selection.md`, "What
//! satisfies world" and "`unable to select packages`".
ghost use Rattle.std.specs.Prelude.{◌≡◌, ℕ, [], IfOk, IfSome, MatchOption};
ghost use Rattle.unmet_world.specs.Lines.{IsExplanationOfUnmetWorldOfPool};
ghost use Rattle.unmet_world.specs.Refutation.{IsFirstUnmetOfWorld, IsRefutation, IsUnmet, want_of_world_entry};

use crate::lines::explanation;
use crate::propagation::propagate;
use crate::refutation::{Owner, Refutation, Want, is_refutation};
use crate::texts::Sources;
use dep_core::{Repos, World};
use search_tables::{NeedRef, Sealed};
use std::alloc::{AllocError, Global};

/// A refutation of the world that the pool was sealed with, if one is found. If no candidate that
/// may be selected meets some entry of world, the refutation is the first such entry, without
/// steps.
///
/// # Errors
///
/// Out of memory.
pub fn why_unmet(
    alloc: Global,
    pool: &Sealed<'_>,
    world: &World,
) -> Result<Option<Refutation>, AllocError>
    // The world is the one with which the pool was sealed.
    requires { world.now ≡ pool.now.world }
    // The steps and the end are a refutation of this world.
    ensures proof { IfOk result (λ found. IfSome found (λ r. IsRefutation pool.now r)) }
    // If no candidate meets some entry of world, the first such entry is the end, without steps.
    ensures named { IfOk result (λ found. (index : ℕ) → IsFirstUnmetOfWorld pool.now index →
        MatchOption found ⊥ (λ r. (r.steps.items ≡ []) × (r.end ≡ want_of_world_entry index))) }
{
    if let Some(index) = first_unmet(alloc, pool, world)? {
        return Ok(Some(Refutation {
            steps: Vec::new(alloc),
            end: Want {
                owner: Owner::World,
                index,
            },
        }));
    }
    // What the search finds is a refutation only if it passes the test.
    let Some(refutation) = propagate(alloc, pool, world)? else {
        return Ok(None);
    };
    if is_refutation(alloc, pool, world, &refutation)? {
        return Ok(Some(refutation));
    }
    Ok(None)
}

/// The explanation why no selection satisfies a world, as it is printed. `listed` has the entries
/// of the file of world, before the command changes them.
pub fn explanation_of(
    alloc: Global,
    pool: &Sealed<'_>,
    world: &World,
    listed: &World,
    repositories: &Repos,
) -> Result<Vec<u8>, AllocError>
    // The world is the one with which the pool was sealed.
    requires { world.now ≡ pool.now.world }
    ensures { IfOk result (λ text.
        IsExplanationOfUnmetWorldOfPool pool.now listed.now repositories.now text.items) }
{
    let found = why_unmet(alloc, pool, world)?;
    let sources = Sources {
        pool,
        world,
        listed,
        repositories,
    };
    explanation(alloc, &sources, &found)
}

// The index of the first entry of world that no candidate meets which may be selected.
fn first_unmet(alloc: Global, pool: &Sealed<'_>, world: &World) -> Result<Option<usize>, AllocError>
    // The world is the one with which the pool was sealed.
    requires { world.now ≡ pool.now.world }
    ensures { IfOk result (λ found. MatchOption found ((index : ℕ) →
        IsUnmet pool.now (want_of_world_entry index) → ⊥) (IsFirstUnmetOfWorld pool.now)) }
{
    for index in 0..world.len() {
        let dep = world.entry(index);
        if dep.conflict {
            continue;
        }
        let options = pool.options_for(alloc, &NeedRef::Entry(&dep))?;
        if options.is_empty() {
            return Ok(Some(index));
        }
    }
    Ok(None)
}
