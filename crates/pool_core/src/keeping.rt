//! For each candidate a mark: whether it is preferred in rank because it is installed and the
//! command does not upgrade its name. The names that the command upgrades are sorted once, so that
//! they are found fast. The rule is in `docs/selection.md`, "Which selection is taken", key 4 of
//! the table.
ghost use Rattle.std.specs.Prelude.{◌≡◌, ◌&&◌, map, not, IfOk};
ghost use Rattle.option_ranks.specs.candidate_core.Packages.{candidates_of_packages};
ghost use Rattle.option_ranks.specs.candidate_core.Rank.{is_kept_installed, listed_names};
ghost use Rattle.option_ranks.specs.candidate_core.Values.{names_upgraded_by};

use crate::sorted::SortedWords;
use base_core::Words;
use option_ranks::{Details, Packages, Upgrade};
use std::alloc::{AllocError, Global};

/// For each candidate, whether it is installed and the command does not upgrade its name.
pub(crate) fn kept_marks(
    alloc: Global,
    packages: &Packages<'_>,
    upgrade: Upgrade<'_>,
) -> Result<Vec<bool>, AllocError>
    ensures { IfOk result (λ marks. marks.items
        ≡ map (is_kept_installed (names_upgraded_by upgrade.entry))
        (candidates_of_packages packages.now)) }
{
    match upgrade {
        Upgrade::Nothing => marks_with_all(alloc, packages, false),
        Upgrade::All => marks_with_all(alloc, packages, true),
        Upgrade::Listed(words) => marks_with_listed(alloc, packages, words),
    }
}

// The marks of all candidates if the command upgrades every name (`is_upgraded` is true), or no
// name.
fn marks_with_all(
    alloc: Global,
    packages: &Packages<'_>,
    is_upgraded: bool,
) -> Result<Vec<bool>, AllocError>
    ensures { IfOk result (λ marks. marks.items
        ≡ map (λ one. one.installed && not is_upgraded) (candidates_of_packages packages.now)) }
{
    let mut marks = Vec::with_capacity(alloc, packages.len())?;
    for place in 0..packages.len() {
        marks.push(is_kept(&packages.get(place), is_upgraded))?;
    }
    Ok(marks)
}

// The marks of all candidates if the command upgrades the names of this list, which may be in any
// order.
fn marks_with_listed(
    alloc: Global,
    packages: &Packages<'_>,
    names: &Words,
) -> Result<Vec<bool>, AllocError>
    ensures { IfOk result (λ marks. marks.items
        ≡ map (is_kept_installed (listed_names names.now)) (candidates_of_packages packages.now)) }
{
    let sorted = SortedWords::of(alloc, names)?;
    let marks = marks_with_sorted(alloc, packages, &sorted)?;
    Ok(marks)
}

// The marks of all candidates if the command upgrades these names, which are in byte order, so that
// the name of each candidate is found by bisection.
fn marks_with_sorted(
    alloc: Global,
    packages: &Packages<'_>,
    names: &SortedWords<'_>,
) -> Result<Vec<bool>, AllocError>
    ensures { IfOk result (λ marks. marks.items
        ≡ map (is_kept_installed (listed_names names.now)) (candidates_of_packages packages.now)) }
{
    let mut marks = Vec::with_capacity(alloc, packages.len())?;
    for place in 0..packages.len() {
        marks.push(is_kept_beside(&packages.get(place), names))?;
    }
    Ok(marks)
}

// Whether a candidate is installed, and its name is not one of these upgraded names.
fn is_kept_beside(one: &Details<'_>, names: &SortedWords<'_>) -> bool
    ensures { result ≡ is_kept_installed (listed_names names.now) one.now }
{
    is_kept(one, names.has(one.name()))
}

// Whether a candidate is installed, and the command does not upgrade its name (`is_upgraded`).
fn is_kept(one: &Details<'_>, is_upgraded: bool) -> bool
    ensures { result ≡ (one.now.installed && not is_upgraded) }
{
    one.is_installed() && !is_upgraded
}
