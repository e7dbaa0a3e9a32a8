//! `mkpkg` and `mkndx` make a container, and replace the whole file under its name. The rules are
//! in `docs/commands.md`, "`mkpkg`" and "`mkndx PACKAGE..`", and for the writing in
//! `docs/crash-safety.md`, "A whole file replaced". The container is made by `make_core`.
ghost use Rattle.std.specs.Prelude.{◌≡◌, ◌≢◌, ◌⊎◌, ℕ, false, true, List, Ok, Err, IsSome, IfOk, IsErrOf, OnOk};
ghost use Rattle.make_core.specs.Answers.{IsMadeBySomeReads};
ghost use Rattle.apk_front.specs.Containers.{IsIndexMade, IsIndexFound, IsIndexOutcome, IsPackageMade, IsPackageOutcome, OnMade, is_disk_or_memory, is_making_ended_by_disk_or_memory, made_file_bytes};
ghost use Rattle.apk_front.specs.Moments.{CanAddOutputNamesIfAny};
ghost use Rattle.apk_front.specs.RunContracts.{IsMakingRun, IsVerdictExplainedByCounts};
ghost use Rattle.apk_front.specs.Verdicts.{Reports, ReportsOneOfOutcomes};
ghost use Rattle.base_core.specs.Calls.{IfObservable};
ghost use Rattle.base_core.specs.Faults.{CountsOnlyRise, CountsNewFaultWithCause, CountsNoNewFaultOrLackOfMemory};
ghost use Rattle.base_core.specs.Files.{Files, no_names};
ghost use Rattle.base_core.specs.Read.{OnlyReads};
ghost use Rattle.base_core.specs.Tree.{files_of};
ghost use Rattle.command_core.specs.Sound.{IsValidCommand};
ghost use Rattle.command_core.specs.declared.command.Applet.TheVariants.{Mkndx, Mkpkg};
ghost use Rattle.command_core.specs.declared.values.TheConstants.{FILES};
ghost use Rattle.make_core.specs.Files.{EachOperandReadFindsNoFileOrFileBytes};
ghost use Rattle.make_core.specs.make_info.Output.{output_name};
ghost use Rattle.make_core.specs.make_info.Reads.{Reads};
ghost use Rattle.make_core.specs.package_files.Sources.{AreSortedAndEachBelowFirstFolder, values_of_letter};
ghost use Rattle.outcome.specs.Make.{index_report_line, make_outcome, mkndx, mkpkg, outcome_unless_output_reserved};
ghost use Rattle.outcome.specs.Outcome.{Outcome, just_refusal};
ghost use Rattle.report_core.specs.declared.refusal.Refusal.TheVariants.{ResultTooLarge};

use crate::answer::Verdict;
use adb_dump::is_reserved;
use base_core::{Text, Tree, TreeFault};
use command_core::Command;
use journal_commit::replace;
use make_core::{MakeFault, an_index_has_an_output, an_output_is_short, output_name};
use report_core::Refusal;
use std::alloc::{AllocError, Global};

/// Makes a package, and writes it under the output's name. It reports nothing. Besides the clauses
/// of `run_recovered`, which calls this, `run` says that a refusal writes nothing.
pub(crate) fn mkpkg<T: Tree>(
    alloc: Global,
    command: &Command,
    tree: &mut T,
) -> Result<Verdict, TreeFault>
    // The command is one that the grammar of the command line allows.
    requires command { IsValidCommand command.now }
    // The applet is `mkpkg`.
    requires applet { command.now.applet ≡ Mkpkg }
    // On an observable tree the verdict is that of the outcome over its files.
    ensures found { IfOk result (λ verdict. IfObservable (T.history tree.old) (λ v.
        ReportsOneOfOutcomes (IsPackageOutcome command.now (files_of v)) verdict)) }
    // On every tree it is that of an outcome for some listing and some contents at each read.
    ensures by_reads { IfOk result (λ verdict. (names : List (List ℕ))
        × AreSortedAndEachBelowFirstFolder (values_of_letter FILES command.now.values) names
        × (read : Reads) × Reports verdict (mkpkg read no_names command.now names)) }
    // The effect of the run on the tree.
    ensures run { IsMakingRun (IsPackageOutcome command.now) (output_name command.now)
        (T.history tree.old) (T.history tree.new) result }
    // If there is a verdict, the tree counted no failed call; an I/O error has its cause there.
    ensures counts { IsVerdictExplainedByCounts (T.counts tree.old) (T.counts tree.new) result }
    // No call is a misuse if the paths of the output and its scratch name are free.
    ensures proper { IfObservable (T.history tree.old) (λ v.
        ((outcome : Outcome) → IsPackageOutcome command.now (files_of v) outcome
        → outcome.commits ≡ true → CanAddOutputNamesIfAny (output_name command.now) (files_of v))
        → (T.counts tree.new).misuses ≡ (T.counts tree.old).misuses) }
{
    let container = package(alloc, command, tree);
    let report = Text::from_vec(Vec::new(alloc));
    finish(alloc, command, container, report, tree)
}

/// Makes an index, writes it under the output's name, and reports how many packages it has. The
/// clauses are those of `mkpkg`.
pub(crate) fn mkndx<T: Tree>(
    alloc: Global,
    command: &Command,
    tree: &mut T,
) -> Result<Verdict, TreeFault>
    // The command is one that the grammar of the command line allows.
    requires command { IsValidCommand command.now }
    // The applet is `mkndx`.
    requires applet { command.now.applet ≡ Mkndx }
    // On an observable tree the verdict is that of the outcome over its files.
    ensures found { IfOk result (λ verdict. IfObservable (T.history tree.old) (λ v.
        ReportsOneOfOutcomes (IsIndexOutcome command.now (files_of v)) verdict)) }
    // On every tree the verdict is the specification's, for some contents at each read. The files
    // are not used, so that `no_names` is written for them.
    ensures by_reads { IfOk result (λ verdict. (read : Reads)
        × EachOperandReadFindsNoFileOrFileBytes read 0 command.now.operands
        × Reports verdict (mkndx read no_names command.now)) }
    // The effect of the run on the tree.
    ensures run { IsMakingRun (IsIndexOutcome command.now) (output_name command.now)
        (T.history tree.old) (T.history tree.new) result }
    // If there is a verdict, the tree counted no failed call; an I/O error has its cause there.
    ensures counts { IsVerdictExplainedByCounts (T.counts tree.old) (T.counts tree.new) result }
    // No call is a misuse if the paths of the output and its scratch name are free.
    ensures proper { IfObservable (T.history tree.old) (λ v.
        ((outcome : Outcome) → IsIndexOutcome command.now (files_of v) outcome
        → outcome.commits ≡ true → CanAddOutputNamesIfAny (output_name command.now) (files_of v))
        → (T.counts tree.new).misuses ≡ (T.counts tree.old).misuses) }
{
    // A law that the proof needs; it has no effect at run time.
    an_index_has_an_output();
    let report = index_report_line(alloc, command.operands().len())?;
    let container = index(alloc, command, tree);
    finish(alloc, command, container, report, tree)
}

// Reads the inputs of a package, and makes its container in memory.
fn package<T: Tree>(alloc: Global, command: &Command, tree: &mut T) -> Result<Vec<u8>, MakeFault>
    requires { command.now.applet ≡ Mkpkg }
    // On an observable tree: what is made of its files, or the reason why nothing is made.
    ensures made { IfObservable (T.history tree.old) (λ v.
        OnMade result (IsPackageMade command.now (files_of v))) }
    // On every tree: what is made of some contents at each read, or the reason why nothing is made.
    ensures found { OnMade result (IsMadeBySomeReads command.now) }
    // The tree is only read; an I/O error has its cause there.
    ensures tree { OnlyReads MakeFault.Disk (T.history tree.old) (T.history tree.new)
        (T.counts tree.old) (T.counts tree.new) result }
{
    make_core::mkpkg(alloc, command, tree)
}

// Reads the packages of an index, and makes its container in memory.
fn index<T: Tree>(alloc: Global, command: &Command, tree: &mut T) -> Result<Vec<u8>, MakeFault>
    requires { command.now.applet ≡ Mkndx }
    // On an observable tree: what is made of its files, or the reason why nothing is made.
    ensures made { IfObservable (T.history tree.old) (λ v.
        OnMade result (IsIndexMade command.now (files_of v))) }
    // On every tree: what is made of some contents at each read, or the reason why nothing is made.
    ensures found { OnMade result (IsIndexFound command.now) }
    // The tree is only read; an I/O error has its cause there.
    ensures tree { OnlyReads MakeFault.Disk (T.history tree.old) (T.history tree.new)
        (T.counts tree.old) (T.counts tree.new) result }
{
    make_core::mkndx(alloc, command, tree)
}

// The report of `mkndx` over this many packages.
fn index_report_line(alloc: Global, count: usize) -> Result<Text, AllocError>
    ensures { IfOk result (λ line. line ≡ index_report_line count) }
{
    let line = format!(in alloc; "Index has {count} packages\n")?;
    Text::of(alloc, line.as_bytes())
}

// Writes the container that was made, or refuses. The clauses are those of `mkpkg`; four of them,
// `goes_on`, `disk`, `kept` and `memory`, replace its `counts`, since the tree may also have failed
// while the container was made. Three more: if a fault stopped the making, there is no verdict
// (`done`) and nothing is written (`cut`). An I/O error of the tree is not reported as out of
// memory (`lost`).
fn finish<T: Tree>(
    alloc: Global,
    command: &Command,
    container: Result<Vec<u8>, MakeFault>,
    report: Text,
    tree: &mut T,
) -> Result<Verdict, TreeFault>
    // The command is one that the grammar of the command line allows.
    requires command { IsValidCommand command.now }
    // If a container was made, the command has an output.
    requires output { IfOk container (λ file. IsSome (output_name command.now)) }
    // The verdict is that of the outcome, whatever the files are.
    ensures reported { IfOk result (λ verdict. (files : Files) → Reports verdict
        (make_outcome files (output_name command.now) report (made_file_bytes container))) }
    // The effect of the run on the tree.
    ensures run { IsMakingRun (λ files outcome. outcome
        ≡ make_outcome files (output_name command.now) report (made_file_bytes container))
        (output_name command.now) (T.history tree.old) (T.history tree.new) result }
    // If there is a verdict, no I/O error and no lack of memory stopped the making.
    ensures done { IfOk result (λ verdict. is_making_ended_by_disk_or_memory container ≡ false) }
    // If an I/O error or a lack of memory stopped the making, the tree is unchanged.
    ensures cut { is_making_ended_by_disk_or_memory container ≡ true → T.history tree.new
        ≡ T.history tree.old }
    // No count of failed calls falls.
    ensures goes_on { CountsOnlyRise (T.counts tree.old) (T.counts tree.new) }
    // An I/O error is one that stopped the making, or one of a call here, which is counted.
    ensures disk { IsErrOf result TreeFault.Disk
        → IsErrOf container MakeFault.Disk
        ⊎ CountsNewFaultWithCause (T.counts tree.old) (T.counts tree.new) }
    // If there is a verdict, the tree counted no failed call here.
    ensures kept { OnOk result (CountsNoNewFaultOrLackOfMemory (T.counts tree.old)
        (T.counts tree.new)) }
    // If memory ran out, the tree counted no failed call here.
    ensures memory { IsErrOf result TreeFault.Memory
        → CountsNoNewFaultOrLackOfMemory (T.counts tree.old) (T.counts tree.new) }
    // An I/O error while the container was made is not answered as out of memory.
    ensures lost { IsErrOf result TreeFault.Memory → container ≢ Err MakeFault.Disk }
    // No call is a misuse if the paths of the output and its scratch name are free.
    ensures proper { IfObservable (T.history tree.old) (λ v.
        IfOk container (λ file.
        (make_outcome (files_of v) (output_name command.now) report (Ok file.items)).commits
        ≡ true → CanAddOutputNamesIfAny (output_name command.now) (files_of v))
        → (T.counts tree.new).misuses ≡ (T.counts tree.old).misuses) }
{
    match container {
        Ok(file) => write(alloc, command, &file, report, tree),
        Err(fault) => refuse(alloc, command, fault),
    }
}

// Writes a container under the output's name, unless that name is reserved. The clauses are those
// of `mkpkg`.
fn write<T: Tree>(
    alloc: Global,
    command: &Command,
    file: &[u8],
    report: Text,
    tree: &mut T,
) -> Result<Verdict, TreeFault>
    // The command is one that the grammar of the command line allows.
    requires command { IsValidCommand command.now }
    // The command has an output.
    requires output { IsSome (output_name command.now) }
    // The verdict is that of the outcome, whatever the files are.
    ensures reported { IfOk result (λ verdict. (files : Files) → Reports verdict
        (make_outcome files (output_name command.now) report (Ok file.now))) }
    // The effect of the run on the tree.
    ensures run { IsMakingRun (λ files outcome. outcome
        ≡ make_outcome files (output_name command.now) report (Ok file.now))
        (output_name command.now) (T.history tree.old) (T.history tree.new) result }
    // If there is a verdict, the tree counted no failed call; an I/O error has its cause there.
    ensures counts { IsVerdictExplainedByCounts (T.counts tree.old) (T.counts tree.new) result }
    // No call is a misuse if the paths of the output and its scratch name are free.
    ensures proper { IfObservable (T.history tree.old) (λ v.
        ((make_outcome (files_of v) (output_name command.now) report (Ok file.now)).commits ≡ true
        → CanAddOutputNamesIfAny (output_name command.now) (files_of v))
        → (T.counts tree.new).misuses ≡ (T.counts tree.old).misuses) }
{
    // A law that the proof needs; it has no effect at run time.
    an_output_is_short();
    // The output exists, as the clause `output` requires.
    let Some(output) = output_name(alloc, command)? else {
        unreachable!()
    };
    if is_reserved(output.as_bytes()) {
        return Ok(Verdict::refused(alloc, Refusal::Reserved { path: output }));
    }
    replace(alloc, tree, &output, file)?;
    Ok(Verdict::reported(report))
}

// The verdict if no container was made: its refusal, or the fault that stopped the making.
fn refuse(alloc: Global, command: &Command, fault: MakeFault) -> Result<Verdict, TreeFault>
    // The verdict is that of the outcome, whatever the files and the report are.
    ensures reported { IfOk result (λ verdict. (files : Files) (report : List ℕ)
        → Reports verdict (make_outcome files (output_name command.now) report (Err fault))) }
    // A verdict of this function is a refusal.
    ensures refused { IfOk result (λ verdict. IsSome verdict.refusal) }
    // A fault that stops the making gives no verdict.
    ensures done { IfOk result (λ verdict. is_disk_or_memory fault ≡ false) }
    // An I/O error of the tree and out of memory are returned as they are; memory may also run out
    // here.
    ensures disk { IsErrOf result TreeFault.Disk → fault ≡ MakeFault.Disk }
    ensures lost { IsErrOf result TreeFault.Memory → fault ≢ MakeFault.Disk }
{
    let refusal = refusal_of(alloc, command, fault)?;
    Ok(Verdict::refused(alloc, refusal))
}

// Why no container was made: the refusal, or the fault that stopped the making. A reserved name is
// refused before a result that is too large. The clauses are those of `refuse`.
fn refusal_of(alloc: Global, command: &Command, fault: MakeFault) -> Result<Refusal, TreeFault>
    // The refusal is that of the outcome, whatever the files and the report are.
    ensures reported { IfOk result (λ refusal. (files : Files) (report : List ℕ)
        → make_outcome files (output_name command.now) report (Err fault)
        ≡ just_refusal files refusal) }
    // A fault that stops the making gives no refusal.
    ensures done { IfOk result (λ refusal. is_disk_or_memory fault ≡ false) }
    // An I/O error of the tree is returned as one, and never as out of memory.
    ensures disk { IsErrOf result TreeFault.Disk → fault ≡ MakeFault.Disk }
    ensures lost { IsErrOf result TreeFault.Memory → fault ≢ MakeFault.Disk }
{
    match fault {
        MakeFault::FileMissing { place } => Ok(Refusal::FileMissing { place }),
        MakeFault::FileBad { place, cause } => Ok(Refusal::FileBad { place, cause }),
        MakeFault::InfoBad { place } => Ok(Refusal::InfoBad { place }),
        MakeFault::TooLarge { bytes, values } => {
            let refusal = too_large(alloc, command, bytes, values)?;
            Ok(refusal)
        }
        MakeFault::Disk => Err(TreeFault::Disk),
        MakeFault::Memory => Err(TreeFault::Memory),
    }
}

// The refusal of a container that is too large; a reserved output is refused before that.
fn too_large(
    alloc: Global,
    command: &Command,
    bytes: u64,
    values: u64,
) -> Result<Refusal, AllocError>
    // The refusal is the one that the specification gives: `Reserved` if the output is reserved.
    ensures { IfOk result (λ refusal. (files : Files) → just_refusal files refusal
        ≡ outcome_unless_output_reserved files (output_name command.now)
        (just_refusal files (ResultTooLarge bytes values))) }
{
    match output_name(alloc, command)? {
        Some(path) if is_reserved(path.as_bytes()) => Ok(Refusal::Reserved { path }),
        _ => Ok(Refusal::ResultTooLarge { bytes, values }),
    }
}
