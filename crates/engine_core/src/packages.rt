//! The packages after a change: each added one is read and tested. The rules are in
//! `docs/commands.md`, "`add` and `del`", parts "What is read" and "What is refused".

ghost use Rattle.change_outcome.specs.Answered.{DenotesUnlessDisk};
ghost use Rattle.change_outcome.specs.Arrivals.{CanBeMembers, arrivals_seen};
ghost use Rattle.base_core.specs.Read.{OnlyReads};
ghost use Rattle.change_report.specs.change_outcome.ChangeOutcome.{members_after_change};
ghost use Rattle.change_report.specs.db_core.Seen.{packages_of};
ghost use Rattle.change_report.specs.package_files.Runs.{HoldsOfSomeReadsOfTree};
ghost use Rattle.engine_core.specs.Preparing.{ArePackagesReadForSelection};
ghost use Rattle.engine_core.specs.SelectionSeen.{HasDatabaseOfInputs, HasPoolOfInputs, inputs_of_selection, replacement_seen, wishes_of_selection};
ghost use Rattle.std.specs.Prelude.{IfOk};

use crate::choosing::Selection;
use base_core::Tree;
use change_outcome::{Arrivals, read_arrivals};
use change_report::{PlacedNames, Refused};
use std::alloc::Global;

/// The packages after the change of a selection, as they were read.
pub(crate) struct ReadPackages<'r, 'a> {
    /// The selection: the command, what was read of the root, the candidates, which of them are
    /// chosen, and the names to be reinstalled.
    pub selection: &'r Selection<'a>,
    /// The names of the packages before and of the chosen candidates. Each name has its change, if
    /// its package changes, and the places of its package and of its candidate.
    pub names: PlacedNames<'a>,
    /// The packages after the change: the added ones, read and tested, and the kept ones.
    pub arrivals: Arrivals,
}

/// Drops the parts in one call, so that a function that gives up has one drop and not many.
impl Drop for ReadPackages<'_, '_> {
    fn drop(self) {
        let ReadPackages {
            selection: _,
            names: _,
            arrivals: _,
        } = self;
    }
}

/// Reads and tests the added packages of a selection.
///
/// # Errors
///
/// `PackageMissing`, `PackageBad`, `PackageDiffers` and `ScriptNeeded` of the first package that
/// has one; `Disk`, or `Memory`.
pub(crate) fn read_packages<'r, 'a, T: Tree>(
    alloc: Global,
    selection: &'r Selection<'a>,
    tree: &mut T,
) -> Result<ReadPackages<'r, 'a>, Refused>
    // The opened database and the candidates of the selection are those of what was read.
    requires database { HasDatabaseOfInputs selection.now }
    requires pool { HasPoolOfInputs selection.now }
    // The packages are those that the definition finds by reads of the tree; or the first package
    // with a fault is refused.
    ensures found { HoldsOfSomeReadsOfTree (T.history tree.old) (λ read.
        DenotesUnlessDisk (ArePackagesReadForSelection
        (T.history tree.old) selection.entry.now) result
        (members_after_change (inputs_of_selection selection.entry.now)
        (replacement_seen selection.entry.now) (wishes_of_selection selection.entry.now) read)) }
    // One database can list all these packages: their names are in order, and they are not too
    // many.
    ensures members { IfOk result (λ packages. CanBeMembers
        (packages_of packages.selection.now.db) (arrivals_seen packages.arrivals)) }
    // The tree is only read, and an I/O error has its cause there.
    ensures tree { OnlyReads Refused.Disk (T.history tree.old) (T.history tree.new)
        (T.counts tree.old) (T.counts tree.new) result }
{
    let Selection {
        db,
        pool,
        trace,
        again,
        ..
    } = selection;
    let names = PlacedNames::of(alloc, db, pool, trace, again)?;
    let no_scripts = selection.command.flags().no_scripts;
    let arrivals = read_arrivals(
        alloc,
        tree,
        db,
        pool,
        &names,
        selection.loaded.repositories(),
        no_scripts,
    )?;
    Ok(ReadPackages {
        selection,
        names,
        arrivals,
    })
}
