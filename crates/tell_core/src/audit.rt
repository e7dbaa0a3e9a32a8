//! What `audit` and `manifest` report of a root. The rules are in `docs/commands.md`, "`audit`" and
//! "`manifest`".
ghost use Rattle.base_core.specs.Read.{OnlyReads};
ghost use Rattle.change_inputs.specs.Answers.{Agrees, AgreesUnlessDiskOrMemory};
ghost use Rattle.change_inputs.specs.Seen.{installed_seen};
ghost use Rattle.change_inputs.specs.package_files.Runs.{HoldsOfSomeReadsOfTree};
ghost use Rattle.tell_core.specs.AuditResult.{audit_of, audit_result, manifest_report_or_refusal, manifest_result};

use crate::info::reporting::ReportAndRefusal;
use audit_core::{audit, audits_depend_on_their_own_reads, manifest};
use base_core::{Tree, TreeFault, consecutive_reads_compose};
use change_inputs::{Installed, Refused};
use command_core::Command;
use std::alloc::Global;

/// Reports the installed files that differ from their entries in the database. The database of the
/// root is read, and each file that the database lists.
///
/// # Errors
///
/// The refusals of the database. `Disk` if the tree failed, and `Memory`.
pub(crate) fn report_audit<T: Tree>(
    alloc: Global,
    command: &Command,
    tree: &mut T,
) -> Result<ReportAndRefusal, Refused>
    // The result is that of the definition, for some results of the reads; if the tree is
    // observable, the reads find its files. An I/O error of the tree and out of memory may occur in
    // any case.
    ensures told { HoldsOfSomeReadsOfTree (T.history tree.old) (λ read.
        AgreesUnlessDiskOrMemory (λ done. done) result (audit_result command.now read)) }
    // The tree is only read: no file changes, no I/O error is hidden, and no call is a misuse.
    ensures tree { OnlyReads Refused.Disk (T.history tree.old) (T.history tree.new)
        (T.counts tree.old) (T.counts tree.new) result }
{
    // Laws that the proof needs; they have no effect at run time.
    consecutive_reads_compose::<Installed, ReportAndRefusal, Refused>();
    audits_depend_on_their_own_reads();
    let installed = Installed::read(alloc, command, tree)?;
    audit_installed(alloc, &installed, tree)
}

// Audits the files of the packages of a database.
fn audit_installed<T: Tree>(
    alloc: Global,
    installed: &Installed,
    tree: &mut T,
) -> Result<ReportAndRefusal, Refused>
    // The result is that of the definition, for some results of the reads; if the tree is
    // observable, the reads find its files. An I/O error of the tree and out of memory may occur in
    // any case.
    ensures told { HoldsOfSomeReadsOfTree (T.history tree.old) (λ read.
        AgreesUnlessDiskOrMemory (λ done. done) result (audit_of read
        (installed_seen installed.now))) }
    // The tree is only read: no file changes, no I/O error is hidden, and no call is a misuse.
    ensures tree { OnlyReads Refused.Disk (T.history tree.old) (T.history tree.new)
        (T.counts tree.old) (T.counts tree.new) result }
{
    let db = installed.db(alloc)?;
    match audit(alloc, &db, tree) {
        Ok(report) => Ok(ReportAndRefusal {
            report,
            following_refusal: None,
        }),
        Err(TreeFault::Disk) => Err(Refused::Disk),
        Err(TreeFault::Memory) => Err(Refused::Memory),
    }
}

/// Reports the digests of the files of the packages that are named. Only the database of the root
/// is read.
///
/// # Errors
///
/// The refusals of the database; then `NotInstalled` at the first operand that names no installed
/// package. `Disk` if the tree failed, and `Memory`.
pub(crate) fn report_manifest<T: Tree>(
    alloc: Global,
    command: &Command,
    tree: &mut T,
) -> Result<ReportAndRefusal, Refused>
    // The result is that of the definition, for some results of the reads; if the tree is
    // observable, the reads find its files. An I/O error of the tree and out of memory may occur in
    // any case.
    ensures told { HoldsOfSomeReadsOfTree (T.history tree.old) (λ read.
        AgreesUnlessDiskOrMemory (λ done. done) result (manifest_result command.now read)) }
    // The tree is only read: no file changes, no I/O error is hidden, and no call is a misuse.
    ensures tree { OnlyReads Refused.Disk (T.history tree.old) (T.history tree.new)
        (T.counts tree.old) (T.counts tree.new) result }
{
    let installed = Installed::read(alloc, command, tree)?;
    let done = manifest_installed(alloc, command, &installed)?;
    Ok(done)
}

// The manifest of those packages of the database that the operands of the command name.
fn manifest_installed(
    alloc: Global,
    command: &Command,
    installed: &Installed,
) -> Result<ReportAndRefusal, Refused>
    // The result is the manifest of the definition, or its refusal; out of memory may occur in any
    // case.
    ensures { Agrees (λ done. done) result
        (manifest_report_or_refusal command.now (installed_seen installed.now)) }
{
    let db = installed.db(alloc)?;
    match manifest(alloc, &db, command.operands())? {
        Ok(report) => Ok(ReportAndRefusal {
            report,
            following_refusal: None,
        }),
        // An operand names no installed package.
        Err(refusal) => Err(Refused::Refusal(refusal)),
    }
}
