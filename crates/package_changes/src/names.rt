//! Lists of names: sorted in byte order without repeats, and made of words. `placed.rt` and
//! `stays.rt` use them. Only the order has a rule in a document: `docs/commands.md`, "`add` and
//! `del`", reports packages in byte order of their names. The definition `sorted_distinct_names` is
//! in `own_core`.
ghost use Rattle.own_core.specs.PlanLists.{sorted_distinct_names, names_with_adjacent_repeats_merged};
ghost use Rattle.base_core.specs.ByteOrder.{bytes_cmp};
ghost use Rattle.base_core.specs.Sorted.{sorted_by};
ghost use Rattle.std.specs.Prelude.{◌≡◌, map, IfOk};

use base_core::Words;
use std::alloc::{AllocError, Global};

/// The names in byte order, each once.
#[tactic(auto, unfolding(own_core::specs::PlanLists::sorted_distinct_names))]
pub fn sorted_distinct_names<'a>(names: Vec<&'a [u8]>) -> Result<Vec<&'a [u8]>, AllocError>
    ensures { IfOk result (λ sorted. map (λ n. n.now) sorted.items
        ≡ sorted_distinct_names (map (λ n. n.now) names.entry.items)) }
{
    let mut names = names;
    sort_names(&mut names)?;
    drop_repeats(&mut names);
    Ok(names)
}

/// Sorts names in byte order.
fn sort_names(names: &mut Vec<&[u8]>) -> Result<(), AllocError>
    ensures { IfOk result (λ _. map (λ n. n.now) names.new.items
        ≡ sorted_by bytes_cmp (map (λ n. n.now) names.old.items)) }
{
    names.sort_by(|one, other| one.cmp(other))?;
    Ok(())
}

/// Drops each name that is equal to the name before it.
fn drop_repeats(names: &mut Vec<&[u8]>)
    ensures { map (λ n. n.now) names.new.items
        ≡ names_with_adjacent_repeats_merged (map (λ n. n.now) names.old.items) }
{
    names.dedup();
}

/// The words of a list as a vector of names, in the order of the list.
pub fn names_of_words<'a>(alloc: Global, words: &'a Words) -> Result<Vec<&'a [u8]>, AllocError>
    ensures { IfOk result (λ names. map (λ n. n.now) names.items ≡ words.entry.now) }
{
    let mut names = Vec::new(alloc);
    for i in 0..words.len() {
        names.push(words.word(i))?;
    }
    Ok(names)
}
