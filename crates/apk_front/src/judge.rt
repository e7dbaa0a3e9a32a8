//! Judges a command line: parses its arguments, and runs its applet. A host asks beforehand what
//! the run may do below its root. The rules are in `docs/commands.md`, "Words" and "Commands that
//! recover first"; for the access below the root in `docs/crash-safety.md`, "What the host's tree
//! does"; and for how counts explain an answer in "Misuses, faults and counts".

ghost use Rattle.std.specs.Prelude.{◌≡◌, Ok, IfOk, IsErrOf, IsTrue};
ghost use Rattle.apk_front.specs.Answers.{is_applet_help_or_version_named};
ghost use Rattle.apk_front.specs.RunContracts.{IsJudgedRun, IsReadingRun, IsRunByArguments};
ghost use Rattle.apk_front.specs.Verdicts.{read_only_outcome};
ghost use Rattle.outcome.specs.Commands.{IsPossibleOutcomeWithoutDemo, IsOutcomeWithoutDemo, reads_in};
ghost use Rattle.outcome.specs.Effect.{does_neither_recover_nor_write, ignores_files, effect_of_arguments, effect_of, output, output_name_for_effect, do_arguments_neither_recover_nor_write, depends_only_on_arguments};
ghost use Rattle.outcome.specs.Words.{IsPossibleOutcome, IsOutcome};
ghost use Rattle.words_core.specs.Grammar.{command_of};
ghost use Rattle.apk_front.specs.Effects.{root_access_if_read_only};

use crate::answer::Verdict;
use crate::demo::demo;
use crate::dump::adbdump;
use crate::generate::adbgen;
use crate::recovered::recover_and_run;
use crate::verify::verify;
use crate::version::version;
use base_core::{Tree, TreeFault, Words};
use command_core::{Applet, Command};
use report_core::Refusal;
use std::alloc::{AllocError, Global};
use words_core::{WordsFault, help, read_words, version_line};

/// Judges a command line over a tree, and carries it out. Returns its report, and its refusal, if
/// there is one. Nothing is printed yet.
pub(crate) fn judge<T: Tree>(
    alloc: Global,
    words: &Words,
    tree: &mut T,
) -> Result<Verdict, TreeFault>
    // The verdict is that of the outcome, with its effect on the tree and the tree's counts.
    ensures run { IsJudgedRun T.accepts (IsOutcome (command_of words.now))
        (IsPossibleOutcome (command_of words.now)) (effect_of_arguments (command_of words.now))
        (output words.now)
        (T.history tree.old) (T.history tree.new) (T.counts tree.old) (T.counts tree.new) result }
    // An outcome that depends on the arguments alone is judged on every tree, unless memory ran
    // out.
    ensures by_arguments { IsTrue (depends_only_on_arguments (command_of words.now))
        → IsRunByArguments (IsOutcome (command_of words.now)) tree.old tree.new result }
    // A command that only reads makes no new state of the tree.
    ensures same { IsTrue (do_arguments_neither_recover_nor_write (command_of words.now))
        → T.history tree.new ≡ T.history tree.old }
    // Memory can run out only if the arguments name an applet, or ask for help or the version.
    ensures named { IsErrOf result TreeFault.Memory
        → IsTrue (is_applet_help_or_version_named words.now) }
{
    match read_words(alloc, words) {
        Ok(command) => run_command(alloc, &command, tree),
        Err(WordsFault::Usage { place }) => {
            Ok(Verdict::refused(alloc, Refusal::Usage { place }))
        }
        Err(WordsFault::Memory) => Err(TreeFault::Memory),
    }
}

// Runs an applet; `demo` runs others, in a tree of its own. The clauses are those of `judge`, for a
// parsed command.
#[tactic(auto, using(crate::proofs::Operands::demo_operands))]
fn run_command<T: Tree>(
    alloc: Global,
    command: &Command,
    tree: &mut T,
) -> Result<Verdict, TreeFault>
    // What the run answers, and its effect on the tree.
    ensures run { IsJudgedRun T.accepts (IsOutcome (Ok command.now))
        (IsPossibleOutcome (Ok command.now)) (effect_of command.now.applet)
        (output_name_for_effect (effect_of command.now.applet) command.now)
        (T.history tree.old) (T.history tree.new) (T.counts tree.old) (T.counts tree.new) result }
    // A command that ignores files has one verdict over all files, and leaves the tree as it is.
    ensures by_arguments { IsTrue (ignores_files (effect_of command.now.applet))
        → IsRunByArguments (IsOutcome (Ok command.now)) tree.old tree.new result }
    // A command that only reads makes no new state of the tree.
    ensures same { IsTrue (does_neither_recover_nor_write (effect_of command.now.applet))
        → T.history tree.new ≡ T.history tree.old }
{
    match command.applet() {
        Applet::Demo => demo(alloc, command.operands()),
        _ => run(alloc, command, tree),
    }
}

/// Runs an applet other than `demo`. The clauses are those of `judge`, for a parsed command.
pub(crate) fn run<T: Tree>(
    alloc: Global,
    command: &Command,
    tree: &mut T,
) -> Result<Verdict, TreeFault>
    // What the run answers, and its effect on the tree.
    ensures run { IsJudgedRun T.accepts (IsOutcomeWithoutDemo (Ok command.now))
        (IsPossibleOutcomeWithoutDemo command.now) (effect_of command.now.applet)
        (output_name_for_effect (effect_of command.now.applet) command.now)
        (T.history tree.old) (T.history tree.new) (T.counts tree.old) (T.counts tree.new) result }
    // A command that ignores files has one verdict over all files, and leaves the tree as it is.
    ensures by_arguments { IsTrue (ignores_files (effect_of command.now.applet))
        → IsRunByArguments
        (λ files outcome. outcome ≡ read_only_outcome command.now (reads_in files) files)
        tree.old tree.new result }
    // A command that only reads makes no new state of the tree.
    ensures same { IsTrue (does_neither_recover_nor_write (effect_of command.now.applet))
        → T.history tree.new ≡ T.history tree.old }
{
    match applet_access(command.applet()) {
        RootAccess::Write => recover_and_run(alloc, command, tree),
        RootAccess::Read => look(alloc, command, tree),
    }
}

// Runs an applet that only reads: nothing is written.
#[tactic(auto, using(crate::proofs::Operands::dump_operands, crate::proofs::Operands::gen_operands, crate::proofs::Operands::verify_operands, crate::proofs::Operands::version_operand_rule))]
fn look<T: Tree>(alloc: Global, command: &Command, tree: &mut T) -> Result<Verdict, TreeFault>
    // The applet only reads, by its effect.
    requires { IsTrue (does_neither_recover_nor_write (effect_of command.now.applet)) }
    // The verdict is that of the outcome, and the tree is only read.
    ensures run { IsReadingRun (read_only_outcome command.now)
        (T.history tree.old) (T.history tree.new) (T.counts tree.old) (T.counts tree.new) result }
    // A command that ignores files has one verdict over all files, and leaves the tree as it is.
    ensures by_arguments { IsTrue (ignores_files (effect_of command.now.applet))
        → IsRunByArguments
        (λ files outcome. outcome ≡ read_only_outcome command.now (reads_in files) files)
        tree.old tree.new result }
{
    match command.applet() {
        Applet::Verify => verify(alloc, command.operands(), tree),
        Applet::Version => {
            let verdict = version(alloc, command.flags(), command.operands())?;
            Ok(verdict)
        }
        Applet::Help => {
            let text = help(alloc, command.operands())?;
            Ok(Verdict::reported(text))
        }
        Applet::ProgramVersion => {
            let text = version_line(alloc)?;
            Ok(Verdict::reported(text))
        }
        Applet::Adbdump => adbdump(alloc, command.operands(), tree),
        Applet::Adbgen => adbgen(alloc, command.operands(), tree),
        // Ok(Verdict::empty(alloc)) => No outcome is asked for: `demo` is run by `run_command`, and
        // all others recover first.
        _ => Ok(Verdict::empty(alloc)),
    }
}

/// What a run does below its root. By this the host's tree chooses the lock of the root: several
/// runs that only read may run at the same time, and a run that writes excludes all others.
#[derive(Clone, Copy, PartialEq, Eq)]
pub enum RootAccess {
    /// The run only reads.
    Read,
    /// The run writes below its root, or recovers first, which may write.
    Write,
}

/// What the run of a command line does below its root. A run with a usage error counts as one that
/// only reads. A host asks this before it opens its tree.
pub fn access_for(alloc: Global, words: &Words) -> Result<RootAccess, AllocError>
    // `Read` exactly if the command line only reads.
    ensures { IfOk result (λ access. access
        ≡ root_access_if_read_only (do_arguments_neither_recover_nor_write
        (command_of words.now))) }
{
    match read_words(alloc, words) {
        Ok(command) => Ok(applet_access(command.applet())),
        Err(WordsFault::Usage { .. }) => Ok(RootAccess::Read),
        Err(WordsFault::Memory) => Err(AllocError),
    }
}

/// What an applet does below its root: one that first recovers the root writes, whatever it does
/// then.
pub(crate) fn applet_access(applet: Applet) -> RootAccess
    ensures { result ≡ root_access_if_read_only (does_neither_recover_nor_write
        (effect_of applet)) }
{
    match applet {
        Applet::Verify
        | Applet::Adbdump
        | Applet::Adbgen
        | Applet::Version
        | Applet::Demo
        | Applet::Help
        | Applet::ProgramVersion => RootAccess::Read,
        Applet::Info
        | Applet::Audit
        | Applet::Manifest
        | Applet::List
        | Applet::Search
        | Applet::Policy
        | Applet::Mkpkg
        | Applet::Mkndx
        | Applet::Add
        | Applet::Del
        | Applet::Upgrade
        | Applet::Fix => RootAccess::Write,
    }
}
