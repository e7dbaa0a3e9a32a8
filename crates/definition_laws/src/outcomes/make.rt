//! Which refusal `mkpkg` and `mkndx` report, and what they write.
//! The rules are in `docs/commands.md`, "`mkpkg`" and "`mkndx PACKAGE..`".

ghost use Rattle.std.specs.Prelude.{◌≡◌, ◌↔◌, ℕ, List, Option, Some, Result, Ok, Err, true};
ghost use Rattle.base_core.specs.Files.{Files};
ghost use Rattle.outcome.specs.Make.{make_outcome};
ghost use Rattle.outcome.specs.adb_schema.Reserved.{is_reserved};
ghost use Rattle.outcome.specs.make_info.declared.fault.MakeFault.{MakeFault};
ghost use Rattle.outcome.specs.make_info.declared.fault.MakeFault.TheVariants.{TooLarge};
ghost use Rattle.definition_laws.specs.outcomes.MadeFiles.{IsMadeOrTooLarge, IsRefusedWith, IsReservedName, IsOutputUnreserved, IsOutputWrittenAndReported, refusal_if_input_fault};
ghost use Rattle.report_core.specs.declared.refusal.Refusal.{Refusal};
ghost use Rattle.report_core.specs.declared.refusal.Refusal.TheVariants.{Reserved, ResultTooLarge};

/// A name is reserved exactly if it is one of four names, or is one of them followed by a slash and
/// by more.
pub fn a_name_is_reserved_exactly_if_it_is_one_of_four_or_below_one()
    ensures { (name : List ℕ) → (is_reserved name ≡ true) ↔ IsReservedName name }
{}

/// If the input has a fault, the command is refused because of this fault, even if the name of the
/// output is reserved. Such a fault is a file that is absent or bad, or a bad value of `-I`.
pub fn a_fault_of_the_input_is_reported_before_a_reserved_output()
    ensures { (files : Files) (output : Option (List ℕ)) (report : List ℕ) (fault : MakeFault)
        (refusal : Refusal) → refusal_if_input_fault fault ≡ Some refusal
        → IsRefusedWith refusal files (make_outcome files output report (Err fault)) }
{}

/// If the input has no fault, a reserved output is refused, even if the result is too large. A
/// result that is too large is refused if the output is not reserved.
pub fn a_reserved_output_is_reported_before_a_result_that_is_too_large()
    // A reserved output is refused, even if the result is too large.
    ensures reserved { (files : Files) (name report : List ℕ) (made : Result (List ℕ) MakeFault)
        → IsReservedName name → IsMadeOrTooLarge made
        → IsRefusedWith (Reserved name) files (make_outcome files (Some name) report made) }
    // If the output is not reserved, the result is refused as too large.
    ensures too_large { (files : Files) (output : Option (List ℕ)) (report : List ℕ)
        (bytes values : ℕ) → IsOutputUnreserved output
        → IsRefusedWith (ResultTooLarge bytes values) files
        (make_outcome files output report (Err (TooLarge bytes values))) }
{}

/// A container that is made is written to its output, if this is not reserved, and the report is
/// printed. No file is left under the scratch name, and each other file is unchanged.
pub fn a_made_container_is_written_to_its_output()
    ensures { (files : Files) (output : Option (List ℕ)) (report bytes : List ℕ)
        → IsOutputUnreserved output
        → IsOutputWrittenAndReported output bytes report files (make_outcome files output report
        (Ok bytes)) }
{}
