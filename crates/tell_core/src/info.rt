//! The report of `info` on a root. The modules below it make the report on the packages of a
//! database. The rules are in `docs/commands.md`, "`info`".

mod names;
mod operands;
mod package;
mod paths;
pub(crate) mod reporting;

ghost use Rattle.base_core.specs.Read.{OnlyReads};
ghost use Rattle.change_inputs.specs.Answers.{Agrees, AgreesUnlessDiskOrMemory};
ghost use Rattle.change_inputs.specs.Seen.{installed_seen};
ghost use Rattle.tell_core.specs.InfoResult.{info_result};
ghost use Rattle.tell_core.specs.Info.{info_of};
ghost use Rattle.change_inputs.specs.package_files.Runs.{HoldsOfSomeReadsOfTree};

use crate::info::reporting::{ReportAndRefusal, info_of};
use base_core::Tree;
use change_inputs::{Installed, Refused};
use command_core::Command;
use std::alloc::Global;

/// Reports on the installed packages as the options and operands of `info` ask for it. Only the
/// database of the root is read, and the tree is unchanged, whatever the answer.
///
/// # Errors
///
/// The refusals of the database; then `NotInstalled` at the first operand whose package is not
/// installed, which `info -e` reports after its report. `Disk` if the tree failed, and `Memory`.
pub(crate) fn report_info<T: Tree>(
    alloc: Global,
    command: &Command,
    tree: &mut T,
) -> Result<ReportAndRefusal, Refused>
    // The result is that of the definition, for some results of the reads; if the tree is
    // observable, the reads find its files. An I/O error of the tree and out of memory may occur in
    // any case.
    ensures told { HoldsOfSomeReadsOfTree (T.history tree.old) (λ read.
        AgreesUnlessDiskOrMemory (λ done. done) result (info_result command.now read)) }
    // The tree is only read: no file changes, no I/O error is hidden, and no call is a misuse.
    ensures tree { OnlyReads Refused.Disk (T.history tree.old) (T.history tree.new)
        (T.counts tree.old) (T.counts tree.new) result }
{
    let installed = Installed::read(alloc, command, tree)?;
    let done = report_installed(alloc, command, &installed)?;
    Ok(done)
}

// Reports on the packages of the database as `info` asks for it, or refuses the command.
fn report_installed(
    alloc: Global,
    command: &Command,
    installed: &Installed,
) -> Result<ReportAndRefusal, Refused>
    // The result is the report of the definition, or its refusal; out of memory may occur in any
    // case.
    ensures { Agrees (λ done. done) result
        (info_of command.now (installed_seen installed.now).packages) }
{
    let db = installed.db(alloc)?;
    match info_of(alloc, command, &db)? {
        Ok(done) => Ok(done),
        // The command is refused for an operand, and nothing is reported.
        Err(refusal) => Err(Refused::Refusal(refusal)),
    }
}
