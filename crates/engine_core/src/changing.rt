//! A change of what is installed, from its arguments to its end, or only simulated. The rules are
//! in `docs/commands.md`, "`add` and `del`" and "`upgrade` and `fix`": the refusals, in their
//! order, and the report.

ghost use Rattle.engine_core.specs.ChangeRun.{IsChangeRun};
ghost use Rattle.engine_core.specs.Runs.{IsRunCounted};
ghost use Rattle.engine_core.specs.SelectionSeen.{HasDatabaseOfInputs, replacement_seen};
ghost use Rattle.engine_core.specs.Wishes.{names_to_remove};
ghost use Rattle.journal_staging.specs.journal_commit.Asked.{TargetsAreAccepted};
ghost use Rattle.std.specs.Prelude.{◌≡◌, IfOk};
ghost use Rattle.change_report.specs.package_changes.Report.{simulated_report};

use crate::choosing::{Selection, a_choice_exists, choose};
use crate::making::make_change;
use crate::wishes::{names_of_upgrade, names_to_remove};
use base_core::{Text, Tree, counts_of_consecutive_calls_compose};
use change_outcome::packages_after_a_change_depend_on_their_reads;
use change_report::{
    Changes, Loaded, Refused, a_change_has_a_first_clash_or_none, inputs_depend_on_their_own_reads,
    simulated_report, what_is_read_of_a_root_is_in_the_tree,
};
use command_core::Command;
use journal_staging::runs_with_accepted_targets_begin_with_reads;
use std::alloc::{AllocError, Global};

/// Changes what is installed, as `add`, `del`, `upgrade` or `fix` asks for, and reports it; with
/// `--simulate` it only reports what would change. The change is first tested and prepared in
/// memory. Then its files are staged, from packages that are read once more, and one step commits
/// all of them. Once the first file is staged, memory is requested only for the text of a refusal.
///
/// # Errors
///
/// In this order: the refusals of the files of the root, `TooMany`, `NotInstalled` (not for `add`),
/// and `Unsatisfied`. Then, unless the change is only simulated: those of the added packages,
/// `Reserved`, `PathClash`, `Owned`, `TriggerNeeded`, and `ResultTooLarge` of the database and then
/// of the intent (journal entry). `Disk` is an I/O error of the tree, `Memory` is out of memory.
pub fn change<T: Tree>(alloc: Global, command: &Command, tree: &mut T) -> Result<Text, Refused>
    // The answer, and the effect on the tree, moment by moment.
    ensures run { IsChangeRun command.now (T.history tree.old) (T.history tree.new)
        (T.counts tree.old) (T.counts tree.new) result }
    // How the tree's counts explain the answer: no count falls, an I/O error has its cause, and any
    // other answer hides none.
    ensures counts { IsRunCounted (T.counts tree.old) (T.counts tree.new) result }
    // At each moment the tree has accepted each name to which recovery would then give other bytes
    // than it had at the start.
    ensures promised { TargetsAreAccepted T.accepts (T.history tree.old) (T.history tree.new) }
{
    // Laws that the proof needs; they have no effect at run time.
    a_choice_exists();
    a_change_has_a_first_clash_or_none();
    runs_with_accepted_targets_begin_with_reads::<T>();
    counts_of_consecutive_calls_compose();
    inputs_depend_on_their_own_reads();
    packages_after_a_change_depend_on_their_reads();
    what_is_read_of_a_root_is_in_the_tree();
    let loaded = Loaded::read(alloc, command, tree)?;
    let upgraded = names_of_upgrade(alloc, command)?;
    let selection = choose(alloc, command, &upgraded, &loaded)?;
    if command.flags().simulate {
        let report = simulate(alloc, &selection)?;
        return Ok(report);
    }
    make_change(alloc, &selection, tree)
}

// The report of what would change. This is all that a command with `--simulate` does.
fn simulate(alloc: Global, selection: &Selection<'_>) -> Result<Text, AllocError>
    // The opened database is the one that was read of the root.
    requires { HasDatabaseOfInputs selection.now }
    // The report is that of the definition, for the replacement of this selection.
    ensures { IfOk result (λ report. report ≡ simulated_report (replacement_seen selection.now)
        (names_to_remove selection.now.command.now.applet
        selection.now.command.now.operands)) }
{
    let to_remove = names_to_remove(alloc, selection.command)?;
    let Selection {
        db,
        pool,
        trace,
        again,
        ..
    } = selection;
    let changes = Changes::of(alloc, db, pool, trace, again)?;
    let report = simulated_report(alloc, db, pool, trace, &changes, &to_remove)?;
    Ok(report.into_text())
}
