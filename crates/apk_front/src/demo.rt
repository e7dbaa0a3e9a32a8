//! `demo` makes, indexes and installs small packages in a tree of its own. The rules are in
//! `docs/commands.md`, "`demo N`".
//!
//! Each command line is run by `run`, which runs command lines on every other tree too.
ghost use Rattle.std.specs.Prelude.{◌≡◌, IfOk, IsTrue, MatchResult, OnOk, Some};
ghost use Rattle.apk_front.specs.DemoRuns.{IsRunToOutcome};
ghost use Rattle.apk_front.specs.Verdicts.{Reports, as_outcome};
ghost use Rattle.base_core.specs.Files.{Files, no_names, put_name};
ghost use Rattle.base_core.specs.Tree.{files_of};
ghost use Rattle.command_core.specs.Operands.{exactly};
ghost use Rattle.command_core.specs.Sound.{are_allowed_operands};
ghost use Rattle.command_core.specs.declared.operands.OperandKind.TheVariants.{Number};
ghost use Rattle.outcome.specs.DemoCount.{demo_count};
ghost use Rattle.outcome.specs.DemoLines.{mkpkg_words};
ghost use Rattle.outcome.specs.DemoReport.{demo_line_of_count_and_add_report};
ghost use Rattle.outcome.specs.Commands.{IsOutcomeWithoutDemo};
ghost use Rattle.outcome.specs.Demo.{IsDemoOutcomeAfterInstallingByPackageCount, IsDemoOutcomeAfterPackagingByPackageCount, IsDemoOutcomeByPackageCount, IsOutcomeOfNextRunAloneOrEarlierRefusal, with_file_packed_in_demo_package};
ghost use Rattle.outcome.specs.Outcome.{Outcome, just_report_unless_refusal};
ghost use Rattle.tree_memory.specs.Memory.{tree_state};
ghost use Rattle.words_core.specs.Grammar.{command_of};

use crate::answer::Verdict;
use crate::judge::run;
use base_core::{Name, Text, TreeFault, Words};
use command_core::Operands;
use outcome::{
    add_words, contents_of_demo_file, demo_count, demo_file, demo_line_of_count_and_add_report,
    demo_repositories, mkndx_words, mkpkg_words,
};
use report_core::Refusal;
use std::alloc::{AllocError, Global};
use tree_memory::MemoryTree;
use words_core::{WordsFault, read_words};

/// The file that lists the repositories (`docs/formats.md`, "Repositories").
const REPOSITORIES: &[u8] = b"etc/apk/repositories";

/// Makes, indexes and installs as many packages as the one operand says. Reports the last line that
/// the installation printed, or the first refusal. `demo` fails only by running out of memory.
pub(crate) fn demo(alloc: Global, operands: &Operands) -> Result<Verdict, TreeFault>
    // There is exactly one operand, and its text is a number.
    requires { IsTrue (are_allowed_operands (Some (exactly 1 Number)) operands.now) }
    // The verdict is that of an outcome of `demo`. The only fault is a lack of memory.
    ensures { MatchResult result
        (λ verdict. (files : Files)
        → IsDemoOutcomeByPackageCount (demo_count operands.now) files (as_outcome files verdict))
        (λ fault. fault ≡ TreeFault.Memory) }
{
    let count = demo_count(operands);
    let mut tree = MemoryTree::new(alloc);
    match install(alloc, count, &mut tree) {
        Ok(verdict) => told(alloc, count, verdict),
        Err(_) => Err(TreeFault::Memory),
    }
}

// The verdict of `demo`, by the verdict `last` of its last run: the refusal of that run, or the
// line of `demo`, which ends with the last line of that run's report.
fn told(alloc: Global, count: u16, last: Verdict) -> Result<Verdict, TreeFault>
    // The verdict is the line of `demo`, or the refusal of the last command. The only fault is a
    // lack of memory.
    ensures { MatchResult result
        (λ verdict. (files : Files) → as_outcome files verdict
        ≡ just_report_unless_refusal files last.refusal
        (demo_line_of_count_and_add_report count last.report))
        (λ fault. fault ≡ TreeFault.Memory) }
{
    let line = demo_line_of_count_and_add_report(alloc, count, last.report.as_bytes())?;
    Ok(unless_refused(alloc, last.refusal, line))
}

// The verdict with the refusal, if there is one, and with the report otherwise.
fn unless_refused(alloc: Global, refusal: Option<Refusal>, report: Text) -> Verdict
    // The verdict is that of this outcome, whatever the files are.
    ensures { (files : Files) → as_outcome files result
        ≡ just_report_unless_refusal files refusal report }
{
    match refusal {
        Some(refusal) => Verdict::refused(alloc, refusal),
        None => Verdict::reported(report),
    }
}

// Makes packages 1 to n, indexes and installs them, in an empty tree. After a refusal the further
// runs are skipped. Returns the verdict of the last run that was not skipped.
fn install(alloc: Global, n: u16, tree: &mut MemoryTree) -> Result<Verdict, TreeFault>
    // The tree has no files.
    requires { files_of (tree_state tree.old) ≡ no_names }
    // The verdict is that of the outcome of the last run, and the tree has the files of this
    // outcome.
    ensures { IfOk result (λ verdict. IsRunToOutcome
        (IsDemoOutcomeAfterInstallingByPackageCount n) verdict tree.new) }
{
    let packaged = package_all(alloc, n, tree)?;
    let words = mkndx_words(alloc, n)?;
    let indexed = run_after(alloc, packaged, &words, tree)?;
    let words = add_words(alloc, n)?;
    run_after(alloc, indexed, &words, tree)
}

// Writes the list of repositories, and makes the packages 1 to n, up to the first that is refused.
// Returns the verdict of the last run of `mkpkg`; if `n` is 0, an empty one.
fn package_all(alloc: Global, n: u16, tree: &mut MemoryTree) -> Result<Verdict, TreeFault>
    // The tree has no files.
    requires { files_of (tree_state tree.old) ≡ no_names }
    // The verdict is that of the outcome of the last run, and the tree has the files of this
    // outcome.
    ensures { IfOk result (λ verdict. IsRunToOutcome
        (IsDemoOutcomeAfterPackagingByPackageCount n) verdict tree.new) }
{
    put(alloc, REPOSITORIES, demo_repositories(), tree)?;
    let mut last = Verdict::empty(alloc);
    for i in 0..n {
        last = package_behind(alloc, last, i + 1, tree)?;
    }
    Ok(last)
}

// Makes package i, unless the run with the verdict `last` was refused: then `last` is returned.
fn package_behind(
    alloc: Global,
    last: Verdict,
    i: u16,
    tree: &mut MemoryTree,
) -> Result<Verdict, TreeFault>
    // `before` is the outcome of the run before this one. If the tree has its files, the verdict
    // and the files are those of the next run, or of `before` if that run was refused.
    ensures { IfOk result (λ verdict. (before : Outcome) → Reports last before
        → files_of (tree_state tree.old) ≡ before.files
        → IsRunToOutcome (IsOutcomeOfNextRunAloneOrEarlierRefusal (mkpkg_words i)
        (with_file_packed_in_demo_package i before.files) before)
        verdict tree.new) }
{
    if last.refusal.is_some() {
        return Ok(last);
    }
    package(alloc, i, tree)
}

// Puts the one file of package i into the tree, and runs `mkpkg` on it.
fn package(alloc: Global, i: u16, tree: &mut MemoryTree) -> Result<Verdict, TreeFault>
    // The verdict and the files are those of `mkpkg`, run over the files with that one file added.
    ensures { IfOk result (λ verdict. IsRunToOutcome (IsOutcomeWithoutDemo (command_of
        (mkpkg_words i))
        (with_file_packed_in_demo_package i (files_of (tree_state tree.old)))) verdict tree.new) }
{
    let name = demo_file(alloc, i)?;
    let text = contents_of_demo_file(alloc, i)?;
    put(alloc, &name, &text, tree)?;
    let words = mkpkg_words(alloc, i)?;
    run_words(alloc, &words, tree)
}

// Runs the command line `words`, unless the run with the verdict `last` was refused: then `last` is
// returned.
fn run_after(
    alloc: Global,
    last: Verdict,
    words: &Words,
    tree: &mut MemoryTree,
) -> Result<Verdict, TreeFault>
    // `before` is the outcome of the run before this one. If the tree has its files, the verdict
    // and the files are those of the next run, or of `before` if that run was refused.
    ensures { IfOk result (λ verdict. (before : Outcome) → Reports last before
        → files_of (tree_state tree.old) ≡ before.files
        → IsRunToOutcome (IsOutcomeOfNextRunAloneOrEarlierRefusal words.now before.files before) verdict tree.new) }
{
    if last.refusal.is_some() {
        return Ok(last);
    }
    run_words(alloc, words, tree)
}

// Parses the command line `words`, and runs its applet in the tree of `demo`.
fn run_words(alloc: Global, words: &Words, tree: &mut MemoryTree) -> Result<Verdict, TreeFault>
    // The verdict and the files left are those of the command line's outcome over the files before.
    ensures { IfOk result (λ verdict. IsRunToOutcome
        (IsOutcomeWithoutDemo (command_of words.now) (files_of (tree_state tree.old)))
        verdict tree.new) }
{
    match read_words(alloc, words) {
        Ok(command) => run(alloc, &command, tree),
        Err(WordsFault::Usage { place }) => {
            Ok(Verdict::refused(alloc, Refusal::Usage { place }))
        }
        Err(WordsFault::Memory) => Err(TreeFault::Memory),
    }
}

// Puts a file with these bytes under a name in the tree. Each name of `demo` is valid, and is no
// folder of another name of `demo`. Any other name would be reported as out of memory.
fn put(alloc: Global, name: &[u8], bytes: &[u8], tree: &mut MemoryTree) -> Result<(), AllocError>
    // If Ok, the files are those before with this file added.
    ensures { OnOk result (files_of (tree_state tree.new)
        ≡ put_name (files_of (tree_state tree.old)) name.now bytes.now) }
{
    let Some(name) = Name::read(alloc, name)? else {
        return Err(AllocError);
    };
    if !tree.can_put(&name) {
        return Err(AllocError);
    }
    tree.put(&name, bytes)
}
