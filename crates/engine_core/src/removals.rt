//! What a change removes. The rules are in `docs/commands.md`, "What a change does with files", and
//! for the text database in "A root of version 2".
ghost use Rattle.change_report.specs.own_core.PlanLists.{sorted_distinct_names};
ghost use Rattle.change_report.specs.change_outcome.ChangeOutcome.{name_if_needed};
ghost use Rattle.change_report.specs.journal_intent.FreeNames.{HaveNoRepeats};
ghost use Rattle.base_core.specs.ByteOrder.{bytes_cmp};
ghost use Rattle.base_core.specs.Sorted.{sorted_by};
ghost use Rattle.root_names.specs.RootNames.{text_database_name};
ghost use Rattle.std.specs.Prelude.{◌≡◌, ◌++◌, map, IfOk, OnOk};

use base_core::{Name, Names};
use root_names::text_database_name;
use std::alloc::{AllocError, Global};

/// The names that a change removes, in byte order: the names `planned` of its plan, and that of the
/// text database, if its packages are taken over (`takes_text_over`).
pub(crate) fn removals_of(
    alloc: Global,
    planned: &Names,
    takes_text_over: bool,
) -> Result<Names, AllocError>
    // No name is removed twice.
    requires { HaveNoRepeats (planned.now ++ name_if_needed takes_text_over text_database_name) }
    ensures { IfOk result (λ names. names
        ≡ sorted_distinct_names (planned.now
        ++ name_if_needed takes_text_over text_database_name)) }
{
    let text_name = text_database_name(alloc)?;
    let mut names = Vec::new(alloc);
    push_each(&mut names, planned)?;
    if takes_text_over {
        names.push(&text_name)?;
    }
    sort_names(&mut names)?;
    copies_of(alloc, &names)
}

/// Appends each of the names `more`.
fn push_each<'a>(names: &mut Vec<&'a Name>, more: &'a Names) -> Result<(), AllocError>
    ensures { OnOk result (map (λ n. n.now) names.new.items
        ≡ map (λ n. n.now) names.old.items ++ more.entry.now) }
{
    for i in 0..more.len() {
        names.push(more.get(i))?;
    }
    Ok(())
}

/// Puts names into byte order, in which the intent lists them.
fn sort_names(names: &mut Vec<&Name>) -> Result<(), AllocError>
    ensures { OnOk result (map (λ n. n.now) names.new.items
        ≡ sorted_by bytes_cmp (map (λ n. n.now) names.old.items)) }
{
    names.sort_by(|one, other| one.as_bytes().cmp(other.as_bytes()))?;
    Ok(())
}

/// Copies of names, in the same order.
pub(crate) fn copies_of(alloc: Global, names: &[&Name]) -> Result<Names, AllocError>
    ensures { IfOk result (λ copies. copies ≡ map (λ n. n.now) names.now) }
{
    let mut copies = Names::new(alloc);
    for name in names {
        copies.push(name.copy(alloc)?)?;
    }
    Ok(copies)
}
