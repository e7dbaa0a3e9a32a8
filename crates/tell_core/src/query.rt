//! What `list`, `search` and `policy` report of a root. The rules are in `docs/commands.md`, under
//! each command's name.
ghost use Rattle.base_core.specs.Read.{OnlyReads};
ghost use Rattle.change_inputs.specs.Answers.{Agrees, AgreesUnlessDiskOrMemory};
ghost use Rattle.change_inputs.specs.Seen.{inputs_seen};
ghost use Rattle.change_inputs.specs.package_files.Runs.{HoldsOfSomeReadsOfTree};
ghost use Rattle.query_core.specs.Queries.{text_of_query};
ghost use Rattle.std.specs.Prelude.{◌≡◌, IfOk};
ghost use Rattle.tell_core.specs.QueryResult.{query_report_or_refusal, query_result};

use crate::info::reporting::ReportAndRefusal;
use base_core::{Text, Tree};
use candidate_core::Upgrade;
use change_inputs::{Loaded, Refused, Sealed};
use command_core::{Applet, Command};
use dep_core::Repos;
use query_core::{list, policy, search};
use std::alloc::{AllocError, Global};

/// Reports candidates as the command `list`, `search` or `policy` asks for them. The database of
/// the root, world, the list of repositories and their indexes are read.
///
/// # Errors
///
/// The refusals of these files, and `TooMany` if there are more candidates than a pool holds.
/// `Disk` if the tree failed, and `Memory`.
pub(crate) fn report_query<T: Tree>(
    alloc: Global,
    command: &Command,
    tree: &mut T,
) -> Result<ReportAndRefusal, Refused>
    // The result is that of the definition, for some results of the reads; if the tree is
    // observable, the reads find its files. An I/O error of the tree and out of memory may occur in
    // any case.
    ensures told { HoldsOfSomeReadsOfTree (T.history tree.old) (λ read.
        AgreesUnlessDiskOrMemory (λ done. done) result (query_result command.now read)) }
    // The tree is only read: no file changes, no I/O error is hidden, and no call is a misuse.
    ensures tree { OnlyReads Refused.Disk (T.history tree.old) (T.history tree.new)
        (T.counts tree.old) (T.counts tree.new) result }
{
    let loaded = Loaded::read(alloc, command, tree)?;
    let done = query_loaded(alloc, command, &loaded)?;
    Ok(done)
}

// The report of `list`, `search` or `policy` on the inputs that were read.
fn query_loaded(
    alloc: Global,
    command: &Command,
    loaded: &Loaded,
) -> Result<ReportAndRefusal, Refused>
    // The result is the report of the definition, or the refusal of too many candidates; out of
    // memory may occur in any case.
    ensures { Agrees (λ done. done) result
        (query_report_or_refusal command.now (inputs_seen loaded.now)) }
{
    // All candidates; no name is to be upgraded.
    let pool = loaded.pool(alloc, Upgrade::Nothing)?;
    let report = query(alloc, command, &pool, loaded.repositories())?;
    Ok(ReportAndRefusal {
        report,
        following_refusal: None,
    })
}

// The report of `list`, `search` or `policy` on these candidates (`pool`) and repositories, by the
// applet of the command.
#[tactic(auto, unfolding(query_core::specs::Queries::text_of_query))]
fn query(
    alloc: Global,
    command: &Command,
    pool: &Sealed<'_>,
    repositories: &Repos,
) -> Result<Text, AllocError>
    ensures { IfOk result (λ report. report
        ≡ text_of_query command.now pool.now repositories.now) }
{
    match command.applet() {
        Applet::List => list(alloc, pool, command.operands(), command.flags().installed),
        Applet::Search => search(alloc, pool, command.operands()),
        Applet::Policy => policy(alloc, pool, repositories, command.operands()),
        // No other applet is a query.
        _ => Ok(Text::from_vec(Vec::new(alloc))),
    }
}
