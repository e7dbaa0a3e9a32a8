//! The report of any of the commands that only report on an installed root. Each command's rules
//! are in `docs/commands.md`, under its name.
ghost use Rattle.base_core.specs.Read.{OnlyReads};
ghost use Rattle.change_inputs.specs.Answers.{AgreesUnlessDiskOrMemory};
ghost use Rattle.tell_core.specs.Info.{report_and_refusal};
ghost use Rattle.change_inputs.specs.package_files.Runs.{HoldsOfSomeReadsOfTree};
ghost use Rattle.std.specs.Prelude.{◌≡◌, [], None};
ghost use Rattle.tell_core.specs.ReportForCommand.{report_for_command};

use crate::audit::{report_audit, report_manifest};
use crate::info::report_info;
use crate::info::reporting::ReportAndRefusal;
use crate::query::report_query;
use base_core::{Text, Tree};
use change_inputs::Refused;
use command_core::{Applet, Command};
use std::alloc::Global;

/// Reports on a root as one of these commands asks for it: `info`, `audit`, `manifest`, `list`,
/// `search` or `policy`. The tree is unchanged, whatever the answer. Another command reports
/// nothing.
///
/// # Errors
///
/// The refusal of the command; a refusal may also follow the report, in `following_refusal`. `Disk`
/// if the tree failed, and `Memory`.
pub fn tell<T: Tree>(
    alloc: Global,
    command: &Command,
    tree: &mut T,
) -> Result<ReportAndRefusal, Refused>
    // The result is that of the definition, for some results of the reads; if the tree is
    // observable, the reads find its files. An I/O error of the tree and out of memory may occur in
    // any case.
    ensures told { HoldsOfSomeReadsOfTree (T.history tree.old) (λ read.
        AgreesUnlessDiskOrMemory (λ done. done) result (report_for_command command.now read)) }
    // The tree is only read: no file changes, no I/O error is hidden, and no call is a misuse.
    ensures tree { OnlyReads Refused.Disk (T.history tree.old) (T.history tree.new)
        (T.counts tree.old) (T.counts tree.new) result }
{
    match command.applet() {
        Applet::Info => report_info(alloc, command, tree),
        Applet::Audit => report_audit(alloc, command, tree),
        Applet::Manifest => report_manifest(alloc, command, tree),
        Applet::List | Applet::Search | Applet::Policy => report_query(alloc, command, tree),
        // Callers ask for no report of any other applet.
        _ => Ok(no_report(alloc)),
    }
}

// An empty report.
fn no_report(alloc: Global) -> ReportAndRefusal
    ensures { result ≡ report_and_refusal [] None }
{
    ReportAndRefusal {
        report: Text::from_vec(Vec::new(alloc)),
        following_refusal: None,
    }
}
