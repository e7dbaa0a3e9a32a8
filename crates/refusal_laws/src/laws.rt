//! What follows from the definition of a change for its refusals and for the packages after it. The
//! meaning of each refusal is in the README of this crate, and the order of refusals in
//! `docs/commands.md`, "`add` and `del`".

ghost use Rattle.std.specs.Prelude.{◌≡◌, ℕ, false, true, Err, List, None, Ok, Option, Some};
ghost use Rattle.base_core.specs.Files.{Files};
ghost use Rattle.outcome.specs.change_inputs.Inputs.{Inputs, inputs_of};
ghost use Rattle.outcome.specs.change_outcome.ChangeOutcome.{ChangeDone, ChangeWishes, IsFirstClashOfChange, members_after_change, change_or_refusal, packages_before_and_after_with_purge};
ghost use Rattle.outcome.specs.change_outcome.MembersAfter.{MemberFound};
ghost use Rattle.command_core.specs.Command.{CommandLine};
ghost use Rattle.outcome.specs.engine_core.Changed.{IsFirstClashOfCommand, change_of_command, selected_from_inputs_by_choice};
ghost use Rattle.outcome.specs.engine_core.Choice.{IsPreferredChoiceOrNoneIfRefused};
ghost use Rattle.outcome.specs.engine_core.Selecting.{pool_of_command};
ghost use Rattle.outcome.specs.tell_core.declared.info.reporting.ReportAndRefusal.{ReportAndRefusal};
ghost use Rattle.outcome.specs.make_info.Reads.{Reads};
ghost use Rattle.outcome.specs.make_info.declared.fault.MakeFault.TheVariants.{TooLarge};
ghost use Rattle.outcome.specs.make_core.Making.{made_package};
ghost use Rattle.outcome.specs.Commands.{IsOutcomeOverRecoveredFiles};
ghost use Rattle.outcome.specs.Effect.{Changes, effect_of};
ghost use Rattle.outcome.specs.Outcome.{Outcome};
ghost use Rattle.outcome.specs.Words.{IsOutcome};
ghost use Rattle.outcome.specs.package_changes.Changes.{Replacement};
ghost use Rattle.outcome.specs.path_clashes.Clash.{NamePair};
ghost use Rattle.report_core.specs.declared.refusal.Refusal.{Refusal};
ghost use Rattle.refusal_laws.specs.ChangeFaults.{IsFaultOfChange, IsFaultOfPackage};
ghost use Rattle.refusal_laws.specs.CommandFaults.{IsFaultOfCommandByCandidatePlaces};
ghost use Rattle.refusal_laws.specs.FirstPackage.{HasNoOtherFaultInSameOrEarlierPackage};
ghost use Rattle.refusal_laws.specs.InfoFaults.{AreOperandsFoundInstalled, IsFaultOfDatabase, IsFaultOfInfo, IsFaultOfFirstOperandNotFoundInstalled};
ghost use Rattle.refusal_laws.specs.InputFaults.{IsFaultOfInput};
ghost use Rattle.refusal_laws.specs.MadeTooLarge.{IsPackageToBeMadeTooLargeFirstAtCounts};
ghost use Rattle.refusal_laws.specs.OperandsKnown.{HasPassedTestsBeforeSelectionRefusal};
ghost use Rattle.refusal_laws.specs.PackagesAfter.{AreSelectedMembers};
ghost use Rattle.refusal_laws.specs.QueryFaults.{IsFaultOfInputOrTooManyCandidates};
ghost use Rattle.refusal_laws.specs.ReadBefore.{HasPassedTestsBeforeInputRefusal};
ghost use Rattle.refusal_laws.specs.RunFaults.{IsFaultOfRun, IsFaultOfCommandOverFiles};
ghost use Rattle.refusal_laws.specs.RunMade.{InstallsFirstSelectionFaultlessExceptLimits};
ghost use Rattle.refusal_laws.specs.TestsPassed.{HasPassedFileTestsBeforeRefusal, PassesChangeTestsExceptLimits};
ghost use Rattle.outcome.specs.tell_core.AuditResult.{audit_result, manifest_result};
ghost use Rattle.outcome.specs.tell_core.InfoResult.{info_result};
ghost use Rattle.outcome.specs.tell_core.QueryResult.{query_result};
ghost use Rattle.outcome.specs.words_core.Grammar.{command_of};

use outcome::{a_change_takes_the_first_selection_or_is_refused, a_command_recovers};

/// If what a change reads of a root is refused, the refusal is true: of the database, of world, of
/// the repositories or of their indexes, in this order.
pub fn a_refused_input_has_its_fault()
    // The refusal is true of this input.
    ensures fault { (command : CommandLine) (read : Reads) (refusal : Refusal)
        → inputs_of command read ≡ Err refusal → IsFaultOfInput command read refusal }
    // The inputs that precede the refused one in this order were read, and have no fault.
    ensures order { (command : CommandLine) (read : Reads) (refusal : Refusal)
        → inputs_of command read ≡ Err refusal
        → HasPassedTestsBeforeInputRefusal command read refusal }
{}

/// If `info` is refused, it is for a fault of the database, or for the first operand that asks for
/// what is not installed. The refusal of `info -e` follows its report. Without a refusal, what each
/// operand asks for is installed.
pub fn a_refused_info_has_its_fault()
    // A refusal without a report is true: of the database or of an operand.
    ensures fault { (command : CommandLine) (read : Reads) (refusal : Refusal)
        → info_result command read ≡ Err refusal → IsFaultOfInfo command read refusal }
    // A refusal after the report, which only `info -e` has, is true of an operand.
    ensures following_refusal { (command : CommandLine) (read : Reads) (done : ReportAndRefusal)
        (refusal : Refusal)
        → info_result command read ≡ Ok done → done.following_refusal ≡ Some refusal
        → (command.flags.installed ≡ true)
        × IsFaultOfFirstOperandNotFoundInstalled command read refusal }
    // Without a refusal, the database has what each operand asks for.
    ensures told { (command : CommandLine) (read : Reads) (done : ReportAndRefusal)
        → info_result command read ≡ Ok done → done.following_refusal ≡ None
        → AreOperandsFoundInstalled command read }
{}

/// If an `audit` is refused, it is for a fault of the database. A difference is no refusal.
pub fn a_refused_audit_has_its_fault()
    ensures { (command : CommandLine) (read : Reads) (refusal : Refusal)
        → audit_result command read ≡ Err refusal → IsFaultOfDatabase command read refusal }
{}

/// If a `manifest` is refused, it is for a fault of the database, or for the first operand that
/// names no installed package. A `manifest` has no flag `--who-owns`.
pub fn a_refused_manifest_has_its_fault()
    ensures { (command : CommandLine) (read : Reads) (refusal : Refusal)
        → command.flags.who_owns ≡ false → manifest_result command read ≡ Err refusal
        → IsFaultOfInfo command read refusal }
{}

/// If `list`, `search` or `policy` is refused, it is for a fault of what is read of the root, or
/// for more candidates than a pool holds.
pub fn a_refused_query_has_its_fault()
    ensures { (command : CommandLine) (read : Reads) (refusal : Refusal)
        → query_result command read ≡ Err refusal
        → IsFaultOfInputOrTooManyCandidates command read refusal }
{}

/// If a change is refused, the refusal is true: of an added or removed package, or of the files
/// that the packages after the change would leave.
pub fn a_refused_change_has_its_fault()
    ensures { (inputs : Inputs) (r : Replacement) (wishes : ChangeWishes) (read : Reads)
        (clash : Option NamePair) (files : Files) (refusal : Refusal)
        → change_or_refusal inputs r wishes read clash files ≡ Err refusal
        → IsFirstClashOfChange inputs r wishes read files clash
        → IsFaultOfChange inputs r wishes read files refusal }
{}

/// If a run that changes the installed packages is refused, the refusal is true: of the intent that
/// an earlier change left, or of the recovered files.
pub fn a_refused_run_has_its_fault()
    // The refusal of a command is true of the files on which it works after recovery.
    ensures over { (command : CommandLine) (files : Files) (o : Outcome) (refusal : Refusal)
        → effect_of command.applet ≡ Changes → IsOutcomeOverRecoveredFiles command files o
        → o.refusal ≡ Some refusal → IsFaultOfCommandOverFiles command files refusal }
    // The refusal of a command line is true of the files with which its run begins.
    ensures words { (words : List (List ℕ)) (command : CommandLine) (files : Files) (o : Outcome)
        (refusal : Refusal) → command_of words ≡ Ok command
        → effect_of command.applet ≡ Changes → IsOutcome (command_of words) files o
        → o.refusal ≡ Some refusal → IsFaultOfRun command files refusal }
{
    // A law that the proof needs; it has no effect at run time.
    a_command_recovers();
}

/// If a command that changes the installed packages is refused, the refusal is true: of what it
/// reads, of the candidates and the new world, or of the change to be made.
pub fn a_refused_command_has_its_fault()
    ensures { (command : CommandLine) (read : Reads) (files : Files) (chosen : Option (List ℕ))
        (clash : Option NamePair) (refusal : Refusal)
        → change_of_command command read files chosen clash ≡ Err refusal
        → IsPreferredChoiceOrNoneIfRefused (pool_of_command command read) chosen
        → IsFirstClashOfCommand command read files chosen clash
        → IsFaultOfCommandByCandidatePlaces command read files chosen refusal }
{}

/// A refusal of the selection follows the tests before it. An operand is refused as not installed
/// only if the candidates are not too many, and it is the first such operand. An unsatisfied world
/// is refused only if there is no such operand either.
pub fn a_refused_selection_has_passed_the_tests_before()
    ensures { (command : CommandLine) (inputs : Inputs) (chosen : Option (List ℕ))
        (refusal : Refusal) → selected_from_inputs_by_choice command chosen inputs ≡ Err refusal
        → HasPassedTestsBeforeSelectionRefusal command inputs refusal }
{}

/// A refusal for the files of a change follows the tests before it. A clash of names is refused
/// only if no path is reserved; a contested path only if there is no clash either; a trigger only
/// if each path has an owner; and an exceeded limit only if no trigger is due.
pub fn a_refused_change_has_passed_the_tests_before()
    ensures { (inputs : Inputs) (r : Replacement) (wishes : ChangeWishes) (read : Reads)
        (clash : Option NamePair) (files : Files) (found : List MemberFound) (refusal : Refusal)
        → members_after_change inputs r wishes read ≡ Ok found
        → change_or_refusal inputs r wishes read clash files ≡ Err refusal
        → IsFirstClashOfChange inputs r wishes read files clash
        → HasPassedFileTestsBeforeRefusal wishes
        (packages_before_and_after_with_purge inputs wishes found) files refusal }
{}

/// If the packages after a change are found, no added or removed package has a fault. A change that
/// is made has none of the other faults either: no added path is reserved, no name is a folder of
/// another, each path has an owner, and no trigger is due.
pub fn a_change_that_is_made_has_no_fault()
    // No added or removed package has a fault.
    ensures packages { (inputs : Inputs) (r : Replacement) (wishes : ChangeWishes) (read : Reads)
        (found : List MemberFound) (refusal : Refusal)
        → members_after_change inputs r wishes read ≡ Ok found
        → IsFaultOfPackage inputs r wishes read refusal → ⊥ }
    // The files that the change leaves pass all tests, except those of the writer's limits.
    ensures files { (inputs : Inputs) (r : Replacement) (wishes : ChangeWishes) (read : Reads)
        (clash : Option NamePair) (files : Files) (done : ChangeDone)
        → change_or_refusal inputs r wishes read clash files ≡ Ok done
        → IsFirstClashOfChange inputs r wishes read files clash
        → (found : List MemberFound) × (members_after_change inputs r wishes read ≡ Ok found)
        × PassesChangeTestsExceptLimits wishes
        (packages_before_and_after_with_purge inputs wishes found) files }
{}

/// If an added or removed package is refused, it is the first one with a fault, in byte order of
/// names, and it has no other fault.
pub fn a_refused_package_is_the_first_with_a_fault()
    ensures { (inputs : Inputs) (r : Replacement) (wishes : ChangeWishes) (read : Reads)
        (refusal : Refusal) → members_after_change inputs r wishes read ≡ Err refusal
        → HasNoOtherFaultInSameOrEarlierPackage inputs r wishes read refusal }
{}

/// The packages after a change are the selected ones. An added one is as in its file, with the
/// name, the version and the id of its candidate. An unchanged one is the package before. They are
/// in byte order of names, each once.
pub fn the_packages_after_a_change_are_the_selected_ones()
    ensures { (inputs : Inputs) (r : Replacement) (wishes : ChangeWishes) (read : Reads)
        (found : List MemberFound) → members_after_change inputs r wishes read ≡ Ok found
        → AreSelectedMembers inputs r read found }
{}

/// The packages after a run that is neither refused nor simulated are those of the first preferred
/// selection (the preferred solution).
pub fn the_packages_after_a_run_are_those_of_the_first_selection()
    ensures { (command : CommandLine) (files : Files) (o : Outcome)
        → effect_of command.applet ≡ Changes → IsOutcomeOverRecoveredFiles command files o
        → o.refusal ≡ None
        → command.flags.simulate ≡ false
        → InstallsFirstSelectionFaultlessExceptLimits command files }
{
    // A law that the proof needs; it has no effect at run time.
    a_change_takes_the_first_selection_or_is_refused();
}

/// If `mkpkg` is refused as too large, the refusal reports the numbers of bytes and of values at
/// which the value of the package exceeds a limit of the writer.
pub fn a_package_that_is_too_large_is_refused_with_its_counts()
    ensures { (command : CommandLine) (names : List (List ℕ)) (read : Reads) (bytes values : ℕ)
        → made_package command names read ≡ Err (TooLarge bytes values)
        → IsPackageToBeMadeTooLargeFirstAtCounts command names read bytes values }
{}
