//! What `demo` adds and prints.
//! The rules are in `docs/commands.md`, "`demo N`".

ghost use Rattle.std.specs.Prelude.{ℕ, ◌≡◌, ◌↔◌, ◌<◌, ◌^◌, ◌∷◌, ◌++◌, [], List, codes};
ghost use Rattle.std.specs.Fmt.{decimal};
ghost use Rattle.base_core.specs.Lists.{IsIn};
ghost use Rattle.command_core.specs.declared.operands.Operand.{Operand};
ghost use Rattle.outcome.specs.DemoCount.{demo_count};
ghost use Rattle.outcome.specs.DemoLines.{names_unneeded_by_first_n_up_to};
ghost use Rattle.outcome.specs.DemoReport.{demo_line_of_count_and_add_report};
ghost use Rattle.definition_laws.specs.outcomes.DemoLines.{AreWholeLines, IsUnneededAmongFirstDemoPackages, HasNoLineEnd};
ghost use Rattle.report_core.specs.Reports.{report_line};

/// `demo` prints one line: `demo N: ` and then the last line of a report. `front` are the lines of
/// the report before its last one.
pub fn demo_prints_the_last_line_of_a_report()
    ensures { (n : ℕ) (front line : List ℕ) → AreWholeLines front → HasNoLineEnd line
        → demo_line_of_count_and_add_report n (front ++ report_line line)
        ≡ report_line (codes "demo " ++ decimal n ++ codes ": " ++ line) }
{}

/// The number of packages that `demo` makes is that of its operand.
pub fn demo_makes_as_many_packages_as_its_operand_says()
    ensures { (n : ℕ) (o : Operand) → n < 2 ^ 64 → o.text ≡ decimal n → demo_count (o ∷ []) ≡ n }
{}

/// Of n packages, `demo` adds exactly those on which no other package depends.
pub fn demo_adds_the_packages_on_which_no_other_depends()
    ensures { (n : ℕ) (name : List ℕ) → IsIn name (names_unneeded_by_first_n_up_to n n)
        ↔ IsUnneededAmongFirstDemoPackages n name }
{}
