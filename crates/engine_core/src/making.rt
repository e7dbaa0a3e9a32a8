//! Makes the change of a selection, step by step. The rules are in `docs/commands.md`, "What a
//! change does with files", and the order of the refusals in "`add` and `del`".
ghost use Rattle.engine_core.specs.Preparing.{IsRootRead};
ghost use Rattle.engine_core.specs.Runs.{IsRunCounted, IsRunOnSelection};
ghost use Rattle.engine_core.specs.SelectionSeen.{HasDatabaseOfInputs, HasPoolOfInputs, inputs_of_selection, selection_seen};
ghost use Rattle.journal_staging.specs.journal_commit.Asked.{TargetsAreAccepted};
ghost use Rattle.std.specs.Prelude.{◌≡◌, false, Ok};

use crate::choosing::Selection;
use crate::committing::commit;
use crate::packages::read_packages;
use crate::planning::plan_change;
use crate::rendering::{database_and_world_after_change, render};
use base_core::{Text, Tree, counts_of_consecutive_calls_compose};
use change_outcome::packages_that_were_read_are_those_found;
use change_report::{Refused, a_change_has_a_first_clash_or_none};
use journal_staging::runs_with_accepted_targets_begin_with_reads;
use std::alloc::Global;

/// Makes the change of a selection, and returns its report. The steps: read the added packages,
/// plan the files, make all that is written in memory, and commit it.
///
/// # Errors
///
/// Those of `read_packages`, `plan_change`, `database_and_world_after_change`, `render` and
/// `commit`, in this order.
pub(crate) fn make_change<T: Tree>(
    alloc: Global,
    selection: &Selection<'_>,
    tree: &mut T,
) -> Result<Text, Refused>
    // The opened database and the candidates of the selection are those of what was read.
    requires database { HasDatabaseOfInputs selection.now }
    requires pool { HasPoolOfInputs selection.now }
    // On an observable tree, the database and world were read from its files.
    requires root { IsRootRead (T.history tree.old) (inputs_of_selection selection.now) }
    // The change is not only simulated.
    requires real { selection.now.command.now.flags.simulate ≡ false }
    // The run is that of a change with this selection.
    ensures run { IsRunOnSelection selection.now.command.now (Ok (selection_seen selection.now))
        (T.history tree.old) (T.history tree.new) (T.counts tree.old) (T.counts tree.new) result }
    // How the tree's counts explain the answer: no count falls, an I/O error was counted with its
    // cause, and any other answer hides none.
    ensures counts { IsRunCounted (T.counts tree.old) (T.counts tree.new) result }
    // At each moment the tree has accepted each name to which recovery would then give other bytes
    // than it had at the start.
    ensures promised { TargetsAreAccepted T.accepts (T.history tree.old) (T.history tree.new) }
{
    // Laws that the proof needs; they have no effect at run time.
    a_change_has_a_first_clash_or_none();
    packages_that_were_read_are_those_found();
    runs_with_accepted_targets_begin_with_reads::<T>();
    counts_of_consecutive_calls_compose();
    let packages = read_packages(alloc, selection, tree)?;
    let plan = plan_change(alloc, &packages, tree)?;
    let records = database_and_world_after_change(alloc, &plan)?;
    let rendered = render(alloc, &plan, &records)?;
    commit(alloc, &plan, rendered, tree)
}
