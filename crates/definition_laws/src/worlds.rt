//! Laws that restate the choice of packages without the solver's terms: what a command asks of
//! world, and what it chooses from; which need is next; what holds of the selected packages; when
//! no packages satisfy world; and what a simulation reports of a change. The rules are in
//! `docs/formats.md`, "World", in `docs/selection.md`, and in `docs/commands.md`, "`add` and
//! `del`".
//!
//! The laws cite the definitions of `specs/worlds/`, and those of `change_inputs`, `search_tables`
//! and `engine_core` that they speak of.

ghost use Rattle.std.specs.Prelude.{◌≡◌, ◌↔◌, ℕ, List, Option, None, false, Err, Ok};
ghost use Rattle.engine_core.specs.adb_fields.FirstPair.{IsIn};
ghost use Rattle.engine_core.specs.candidate_core.Candidates.{Candidate, Need};
ghost use Rattle.engine_core.specs.candidate_core.Rank.{SelectionProblem};
ghost use Rattle.engine_core.specs.search_tables.Selection.{IsSatisfying, next_need};
ghost use Rattle.definition_laws.specs.worlds.NextNeed.{IsNextNeedOrNone};
ghost use Rattle.base_core.specs.Files.{Files};
ghost use Rattle.engine_core.specs.own_core.FileChange.{FileChange};
ghost use Rattle.engine_core.specs.change_outcome.ChangeOutcome.{ChangeDone, ChangeWishes, change_report};
ghost use Rattle.command_core.specs.Command.{CommandLine};
ghost use Rattle.engine_core.specs.Changed.{InputsAndReplacement, change_of_command, selected_from_reads_by_choice};
ghost use Rattle.engine_core.specs.Choice.{IsPreferredChoice, IsPreferredChoiceOrNoneIfRefused};
ghost use Rattle.engine_core.specs.Selecting.{pool_of_command};
ghost use Rattle.engine_core.specs.Wishes.{unknown_operand_place};
ghost use Rattle.engine_core.specs.make_info.Reads.{Reads};
ghost use Rattle.engine_core.specs.package_changes.Changes.{Replacement};
ghost use Rattle.engine_core.specs.package_changes.Placed.{candidates_at};
ghost use Rattle.engine_core.specs.package_changes.Report.{simulated_report};
ghost use Rattle.engine_core.specs.path_clashes.Clash.{NamePair};
ghost use Rattle.report_core.specs.declared.refusal.Refusal.{Refusal};
ghost use Rattle.report_core.specs.declared.refusal.Refusal.TheVariants.{Unsatisfied};
ghost use Rattle.definition_laws.specs.worlds.Simulation.{ReportBeginsWithSimulationExceptLastLine, with_simulation};
ghost use Rattle.engine_core.specs.change_inputs.Candidates.{candidates_of};
ghost use Rattle.engine_core.specs.change_inputs.Inputs.{Inputs, inputs_of};
ghost use Rattle.engine_core.specs.change_inputs.World.{new_world};
ghost use Rattle.command_core.specs.declared.command.Applet.{Applet};
ghost use Rattle.command_core.specs.declared.operands.Operand.{Operand};
ghost use Rattle.dep_core.specs.Dependency.{Dependency};
ghost use Rattle.dep_core.specs.World.{IsWorldSortedByName};
ghost use Rattle.definition_laws.specs.worlds.CommandPool.{IsCommandPool};
ghost use Rattle.definition_laws.specs.worlds.NewWorld.{IsWorldAfterApplet, HasOldWorldAsReadAndNewWorldAsRequested};
ghost use Rattle.definition_laws.specs.worlds.SatisfiedWorld.{AreEqualSetsOfCandidates, IsNeededByWorldOrPackages, SatisfyWorld};
ghost use Rattle.definition_laws.specs.worlds.SatisfiedWorld.{IsUnsatisfiable};

use engine_core::{a_change_that_is_made_passes_each_test, a_choice_is_unique};

/// A law on the next need (the dependency to be met next) after some choices. It is the first of
/// these that no choice meets: the entries of world; the dependencies of each choice in turn; the
/// names, in byte order, that a candidate's install-if asks for. If all are met, there is none.
pub fn the_next_need_is_the_first_that_is_unmet()
    // The next need of the solver (*next_need*) is the one that *IsNextNeedOrNone* describes.
    ensures next { (pool : SelectionProblem) (chosen : List ℕ)
        → IsNextNeedOrNone pool chosen (next_need pool chosen) }
    // For the same choices, *IsNextNeedOrNone* holds of at most one next need.
    ensures one { (pool : SelectionProblem) (chosen : List ℕ) (need other : Option Need)
        → IsNextNeedOrNone pool chosen need → IsNextNeedOrNone pool chosen other → need ≡ other }
{}

/// A law: the report of a simulation predicts that of the change. The report of the change begins
/// with the lines of the simulation's report, to the byte, all but the last one, which is a sum
/// (*ReportBeginsWithSimulationExceptLastLine*).
pub fn a_simulation_predicts_the_change()
    // For one replacement, and any wishes, plan of files (`change`) and files: the report of the
    // simulation predicts that of the change.
    ensures reports { (r : Replacement) (wishes : ChangeWishes) (change : FileChange)
        (files : Files)
        → ReportBeginsWithSimulationExceptLastLine (simulated_report r wishes.to_remove)
        (change_report r wishes change files) }
    // For one command, with and without `--simulate`, over the same reads and files: if neither is
    // refused, the report of the former predicts that of the latter. `expected` and `chosen` are
    // the selections of the two, `other` and `clash` their first clashes.
    ensures commands { (command : CommandLine) (read : Reads) (files : Files)
        (expected chosen : Option (List ℕ)) (other clash : Option NamePair)
        (simulation done : ChangeDone) → command.flags.simulate ≡ false
        → IsPreferredChoiceOrNoneIfRefused (pool_of_command (with_simulation command) read) expected
        → IsPreferredChoiceOrNoneIfRefused (pool_of_command command read) chosen
        → change_of_command (with_simulation command) read files expected other ≡ Ok simulation
        → change_of_command command read files chosen clash ≡ Ok done
        → ReportBeginsWithSimulationExceptLastLine simulation.report done.report }
{
    // Laws that the proof needs; they have no effect at run time.
    a_change_that_is_made_passes_each_test();
    a_choice_is_unique();
}

/// A law: if a command with `--simulate` is refused, the command without it is refused with the
/// same refusal, over the same reads and files.
pub fn a_refused_simulation_refuses_the_change()
    // `expected` is the selection of the simulation, and `other` its first clash; `chosen` and
    // `clash` are those of the command without `--simulate`.
    ensures { (command : CommandLine) (read : Reads) (files : Files)
        (expected chosen : Option (List ℕ)) (other clash : Option NamePair) (refusal : Refusal)
        → IsPreferredChoiceOrNoneIfRefused (pool_of_command (with_simulation command) read) expected
        → IsPreferredChoiceOrNoneIfRefused (pool_of_command command read) chosen
        → change_of_command (with_simulation command) read files expected other ≡ Err refusal
        → change_of_command command read files chosen clash ≡ Err refusal }
{
    // A law that the proof needs; it has no effect at run time.
    a_choice_is_unique();
}

/// A law on world after a command. After `add` it has the operands, for each name the last one, and
/// the old entries of all other names. After `del` it has the old entries of all names that are no
/// operands. Any other command leaves world unchanged.
pub fn the_new_world_has_what_was_asked()
    // The new world of a command, whatever world was before, has these entries.
    ensures world { (applet : Applet) (operands : List Operand) (world : List Dependency)
        → IsWorldSortedByName world
        → IsWorldAfterApplet applet operands world (new_world applet operands world) }
    // The same holds of the new world among the inputs of a command.
    ensures read { (command : CommandLine) (read : Reads) (inputs : Inputs)
        → inputs_of command read ≡ Ok inputs
        → HasOldWorldAsReadAndNewWorldAsRequested command read inputs.root }
    // No two different worlds have these entries.
    ensures one { (applet : Applet) (operands : List Operand) (world after other : List Dependency)
        → IsWorldAfterApplet applet operands world after
        → IsWorldAfterApplet applet operands world other → after ≡ other }
{}

/// A law: a command chooses from the packages of all indexes, and the installed packages that no
/// index has. A package of an index counts as installed if an installed package is the same. The
/// packages are to satisfy the command's new world, and `upgrade` upgrades the names it is given.
pub fn a_command_chooses_from_its_indexes_and_its_database()
    ensures { (command : CommandLine) (read : Reads) (pool : SelectionProblem)
        → pool_of_command command read ≡ Ok pool → IsCommandPool command read pool }
{}

/// A law: the packages that a command selects satisfy the new world. Each of them is needed: by
/// world, by another selected package that depends on it, or by an install-if.
pub fn the_selected_packages_satisfy_the_new_world()
    // The selected packages satisfy the new world.
    ensures satisfied { (command : CommandLine) (read : Reads) (chosen : Option (List ℕ))
        (s : InputsAndReplacement)
        → IsPreferredChoiceOrNoneIfRefused (pool_of_command command read) chosen
        → selected_from_reads_by_choice command read chosen ≡ Ok s
        → SatisfyWorld (candidates_of s.inputs) s.inputs.root.new_world s.replacement.selected }
    // Each selected package c is needed by world, by a selected package, or by an install-if.
    ensures needed { (command : CommandLine) (read : Reads) (chosen : Option (List ℕ))
        (s : InputsAndReplacement) (c : Candidate)
        → IsPreferredChoiceOrNoneIfRefused (pool_of_command command read) chosen
        → selected_from_reads_by_choice command read chosen ≡ Ok s → IsIn c s.replacement.selected
        → IsNeededByWorldOrPackages
        (candidates_of s.inputs) s.inputs.root.new_world s.replacement.selected c }
{}

/// A law: *IsSatisfying*, by which the solver works on indexes of candidates, agrees with
/// *SatisfyWorld*, which speaks of packages. So a command finds no selection exactly if no packages
/// satisfy its new world.
pub fn a_selection_satisfies_world_exactly_if_packages_do()
    // The packages at the indexes of a satisfying selection satisfy world.
    ensures satisfied { (pool : SelectionProblem) (selection : List ℕ) → IsSatisfying pool selection
        → SatisfyWorld pool.candidates pool.world (candidates_at pool selection) }
    // Packages that satisfy world are, in any order and number, those at the indexes of a
    // satisfying selection.
    ensures found { (pool : SelectionProblem) (packages : List Candidate)
        → SatisfyWorld pool.candidates pool.world packages
        → (selection : List ℕ) × IsSatisfying pool selection
        × AreEqualSetsOfCandidates (candidates_at pool selection) packages }
    // A command has no selection exactly if no packages satisfy its new world.
    ensures none { (command : CommandLine) (read : Reads) (inputs : Inputs)
        (pool : SelectionProblem)
        → inputs_of command read ≡ Ok inputs → pool_of_command command read ≡ Ok pool
        → IsPreferredChoice pool None
        ↔ IsUnsatisfiable (candidates_of inputs) inputs.root.new_world }
    // If a command is refused as unsatisfied, no packages satisfy its new world.
    ensures refused { (command : CommandLine) (read : Reads) (chosen : Option (List ℕ))
        → IsPreferredChoiceOrNoneIfRefused (pool_of_command command read) chosen
        → selected_from_reads_by_choice command read chosen ≡ Err Unsatisfied
        → (inputs : Inputs) × (inputs_of command read ≡ Ok inputs)
        × IsUnsatisfiable (candidates_of inputs) inputs.root.new_world }
    // If no packages satisfy its new world, the command is refused as unsatisfied, unless an
    // earlier test refuses it.
    ensures refuses { (command : CommandLine) (read : Reads) (chosen : Option (List ℕ))
        (inputs : Inputs) (pool : SelectionProblem)
        → IsPreferredChoiceOrNoneIfRefused (pool_of_command command read) chosen
        → inputs_of command read ≡ Ok inputs → pool_of_command command read ≡ Ok pool
        → unknown_operand_place command.applet inputs command.operands ≡ None
        → IsUnsatisfiable (candidates_of inputs) inputs.root.new_world
        → selected_from_reads_by_choice command read chosen ≡ Err Unsatisfied }
{}
