//! The candidates whose install-if can apply, and for each name the candidates whose install-if has
//! an entry of this name. The rules are in `docs/selection.md`: "What satisfies world", 4 (when an
//! install-if applies), and "Which selection is taken" (names are needed in byte order).
ghost use Rattle.std.specs.Prelude.{◌≡◌, ◌≤◌, ◌<◌, ℕ, List, length, get_or, true, false, IfOk, OnOk, slice_get};
ghost use Rattle.dep_core.specs.Dependency.{Dependency};
ghost use Rattle.pool_core.specs.candidate_core.Options.{AreAllMembersOf, IsIn};
ghost use Rattle.pool_core.specs.candidate_core.Rank.{bytes_cmp};
ghost use Rattle.search_tables.specs.InstallIf.{AreUsableInstallIfsByName, has_lesser_name, install_if_at, is_eligible_with_positive_install_if_at, name_at};
ghost use Rattle.search_tables.specs.NameTable.{items_under_name};

use crate::name_table::NameTable;
use pool_core::{CandId, Deps, Sealed};
use std::alloc::{AllocError, Global};
use std::cmp::Ordering;

/// The candidates whose install-if can apply, in byte order of their names. A table has for each
/// name the ranks (the indexes in this list) of the candidates whose install-if has an entry of the
/// name.
#[derive(Drop)]
pub struct InstallIfs<'p> {
    /// The candidates, in byte order of their names. The index of a candidate in this list, counted
    /// from 0, is its rank.
    pub by_name: Vec<CandId>,
    /// For each name, the ranks of the candidates whose install-if has an entry of the name.
    pub waiting: NameTable<'p, usize>,
}

impl<'p> InstallIfs<'p> {
    /// The candidates of a pool whose install-if can apply.
    pub fn new(alloc: Global, pool: &'p Sealed<'p>) -> Result<InstallIfs<'p>, AllocError>
        ensures { IfOk result (λ found. AreUsableInstallIfsByName pool.entry.now found.by_name.items
            found.waiting) }
    {
        // The candidates whose install-if can apply, in byte order of their names.
        let by_name = in_byte_order(alloc, pool)?;
        let mut waiting = NameTable::new(alloc);
        for rank in 0..by_name.len() {
            add_install_if(&mut waiting, pool, by_name[rank], rank)?;
        }
        Ok(InstallIfs { by_name, waiting })
    }

    /// The candidate with a rank, counted from 0; None if there is none.
    pub fn at(&self, rank: usize) -> Option<CandId>
        ensures { result ≡ slice_get self.now.by_name.items rank }
    {
        self.by_name.get(rank).copied()
    }

    /// The ranks of the candidates whose install-if has an entry of a name.
    pub fn waiting_for(&self, name: &[u8]) -> &[usize]
        ensures { result.now ≡ items_under_name self.now.waiting name.now }
    {
        self.waiting.get(name)
    }
}

// The candidates whose install-if can apply, in byte order of their names.
fn in_byte_order(alloc: Global, pool: &Sealed<'_>) -> Result<Vec<CandId>, AllocError>
    // The list has exactly the candidates whose install-if can apply.
    ensures those { IfOk result (λ ids. (k : ℕ) → IsIn k ids.items →
        is_eligible_with_positive_install_if_at pool.now k ≡ true) }
    ensures each { IfOk result (λ ids. (k : ℕ)
        → is_eligible_with_positive_install_if_at pool.now k ≡ true →
        IsIn k ids.items) }
    // No name in the list is less, in byte order, than one before it.
    ensures rising { IfOk result (λ ids. (i j d : ℕ) → i ≤ j → j < length ids.items →
        has_lesser_name pool.now (get_or ids.items j d) (get_or ids.items i d) ≡ false) }
{
    let mut ids = Vec::from_slice(alloc, pool.install_ifs())?;
    ids.sort_by(|a, b| by_names(pool, *a, *b))?;
    Ok(ids)
}

// The byte order of the names of two candidates.
fn by_names(pool: &Sealed<'_>, a: CandId, b: CandId) -> Ordering
    ensures { result ≡ bytes_cmp (name_at pool.now a) (name_at pool.now b) }
{
    name_at(pool, a).cmp(&name_at(pool, b))
}

// The name of the candidate at a place; empty if no candidate is there.
fn name_at<'a>(pool: &'a Sealed<'_>, id: CandId) -> &'a [u8]
    ensures { result.now ≡ name_at pool.entry.now id }
{
    match pool.at(id) {
        Some(details) => details.name(),
        None => &[],
    }
}

// Appends `rank`, the index of the candidate `id` in the list of install-ifs, under the name of
// each entry of its install-if.
fn add_install_if<'p>(
    waiting: &mut NameTable<'p, usize>,
    pool: &'p Sealed<'p>,
    id: CandId,
    rank: usize,
) -> Result<(), AllocError>
    // Each name keeps its ranks. The rank is then under the name of each entry of the install-if.
    ensures more { OnOk result ((name : List ℕ) →
        AreAllMembersOf (items_under_name waiting.old name) (items_under_name waiting.new name)) }
    ensures each { OnOk result ((d : Dependency) →
        IsIn d (install_if_at pool.entry.now id) →
        IsIn rank (items_under_name waiting.new d.name)) }
{
    if let Some(details) = pool.at(id) {
        add_entries(waiting, &details.install_if(), rank)?;
    }
    Ok(())
}

// Appends a rank under the name of each of these dependencies.
fn add_entries<'p>(
    waiting: &mut NameTable<'p, usize>,
    deps: &Deps<'p>,
    rank: usize,
) -> Result<(), AllocError>
    // Each name keeps its ranks. The rank is then under the name of each of the dependencies.
    ensures more { OnOk result ((name : List ℕ) →
        AreAllMembersOf (items_under_name waiting.old name) (items_under_name waiting.new name)) }
    ensures each { OnOk result ((d : Dependency) → IsIn d deps.now →
        IsIn rank (items_under_name waiting.new d.name)) }
{
    for i in 0..deps.len() {
        waiting.add(deps.get(i).name, rank)?;
    }
    Ok(())
}
