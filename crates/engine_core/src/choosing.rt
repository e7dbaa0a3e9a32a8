//! The candidates that replace the packages before, and how they are chosen. Laws: there is always
//! exactly one choice. The rules are in `docs/selection.md`, "Which selection is taken", and for
//! the refusals in `docs/commands.md`, "`add` and `del`" and "`upgrade` and `fix`".

ghost use Rattle.change_report.specs.change_inputs.Seen.{inputs_seen};
ghost use Rattle.engine_core.specs.Chosen.{IsResultOfChoice};
ghost use Rattle.engine_core.specs.Choice.{IsPreferredChoice, IsPreferredChoiceOrNoneIfRefused};
ghost use Rattle.engine_core.specs.SelectionSeen.{IsSelectedFrom, IsSelectionFor};
ghost use Rattle.engine_core.specs.Wishes.{names_of_upgrade};
ghost use Rattle.std.specs.Prelude.{◌≡◌, ℕ, IfOk, List, Option, Result};
ghost use Rattle.change_report.specs.candidate_core.Rank.{SelectionProblem};
ghost use Rattle.report_core.specs.declared.refusal.Refusal.{Refusal};

use crate::wishes::{names_to_reinstall, names_to_upgrade, unknown_operand};
use base_core::Words;
use change_report::{
    Db, Loaded, Refused, Sealed, Trace, options_are_the_best_first, solve,
    the_first_selection_is_unique,
};
use command_core::Command;
use report_core::Refusal;
use std::alloc::{AllocError, Global};

/// What a command selects: the candidates that replace the packages before, with what they were
/// chosen from.
pub(crate) struct Selection<'a> {
    /// The command.
    pub command: &'a Command,
    /// What was read of the root.
    pub loaded: &'a Loaded,
    /// The database that was read of the root, opened as a list of installed packages.
    pub db: Db<'a>,
    /// The candidates that the command may choose from, under the new world.
    pub pool: Sealed<'a>,
    /// The places of the chosen candidates in `pool`, in the order in which they were chosen.
    pub trace: Trace,
    /// The names to be reinstalled: the operands of `fix`, and none for another command.
    pub again: Words,
}

/// Drops the parts in one call, so that a function that gives up has one drop and not many.
impl Drop for Selection<'_> {
    fn drop(self) {
        let Selection {
            command: _,
            loaded: _,
            db: _,
            pool: _,
            trace: _,
            again: _,
        } = self;
    }
}

/// Chooses the candidates that are installed after a command. `loaded` is what was read of the
/// root; `upgraded` are the operands of `upgrade`, and none for another command.
///
/// # Errors
///
/// `TooMany` candidates; `NotInstalled` of an operand of `del`, `upgrade` or `fix`; `Unsatisfied`;
/// or `Memory`.
pub(crate) fn choose<'a>(
    alloc: Global,
    command: &'a Command,
    upgraded: &'a Words,
    loaded: &'a Loaded,
) -> Result<Selection<'a>, Refused>
    // `upgraded` are the operands of `upgrade`.
    requires { upgraded.now ≡ names_of_upgrade command.now.applet command.now.operands }
    // The result is what the command selects by the one choice among its candidates, or its
    // refusal.
    ensures selected { IsSelectedFrom command.entry.now (inputs_seen loaded.entry.now) result }
    // The selection is made for this command, of these inputs, their database and their candidates.
    ensures parts { IfOk result
        (IsSelectionFor command.entry.now (inputs_seen loaded.entry.now)) }
{
    // A law that the proof needs; it has no effect at run time.
    a_choice_exists();
    let again = names_to_reinstall(alloc, command)?;
    let pool = loaded.pool(alloc, names_to_upgrade(command, upgraded))?;
    let db = loaded.db(alloc)?;
    if let Some(place) = unknown_operand(command, loaded, &db) {
        return Err(Refused::Refusal(Refusal::NotInstalled { place }));
    }
    let trace = first_selection(alloc, loaded, &pool)?;
    Ok(Selection {
        command,
        loaded,
        db,
        pool,
        trace,
        again,
    })
}

// The places of the first preferred selection (the preferred solution) under the new world. The
// error is `Unsatisfied` if no selection satisfies the new world, or `Memory`.
fn first_selection<'a>(
    alloc: Global,
    loaded: &'a Loaded,
    pool: &Sealed<'a>,
) -> Result<Trace, Refused>
    // The candidates are to satisfy the new world of what was read.
    requires { pool.now.world ≡ (inputs_seen loaded.now).root.new_world }
    // There is a choice (a selection, or None), and the result is the answer to this choice.
    ensures { (chosen : Option (List ℕ)) × IsPreferredChoice pool.now chosen
        × IsResultOfChoice chosen result }
{
    // A law that the proof needs; it has no effect at run time.
    a_choice_exists();
    match solve(alloc, pool, loaded.new_world()) {
        Ok(Some(trace)) => Ok(trace),
        Ok(None) => Err(Refused::Refusal(Refusal::Unsatisfied)),
        Err(AllocError) => Err(Refused::Memory),
    }
}

/// A law: there is always a choice among candidates. The choice is the first preferred selection,
/// or None if no selection satisfies world or the candidates were refused.
pub fn a_choice_exists()
    ensures { (pool : Result SelectionProblem Refusal) →
        (chosen : Option (List ℕ)) × IsPreferredChoiceOrNoneIfRefused pool chosen }
{
    // A law that the proof needs; it has no effect at run time.
    options_are_the_best_first();
}

/// A law: there is only one choice among given candidates.
pub fn a_choice_is_unique()
    ensures { (pool : Result SelectionProblem Refusal) (a b : Option (List ℕ)) →
        IsPreferredChoiceOrNoneIfRefused pool a → IsPreferredChoiceOrNoneIfRefused pool b → a ≡ b }
{
    // A law that the proof needs; it has no effect at run time.
    the_first_selection_is_unique();
}
