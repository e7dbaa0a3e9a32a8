//! Laws: what `info` prints, and which operand it refuses. The rules are in `docs/commands.md`,
//! "`info`".

ghost use Rattle.std.specs.Prelude.{◌≡◌, ◌↔◌, ◌∷◌, ◌++◌, [], codes, ℕ, List, Some, None, true, false, is_some, map};
ghost use Rattle.std.specs.List.{filter};
ghost use Rattle.change_outcome.specs.adb_fields.Repeated.{package_name};
ghost use Rattle.adb_view.specs.Plain.{Plain};
ghost use Rattle.adb_view.specs.Values.{text_in};
ghost use Rattle.definition_laws.specs.answers.InfoAnswers.{HasSortedPackageNameLines, IsPlaceOfFirstOperandNotFound, depends_texts_of_package, info_field, info_heading, file_paths_in_listed_order, section_text_with_heading};
ghost use Rattle.base_core.specs.Lists.{IsIn};
ghost use Rattle.command_core.specs.declared.command.Flags.{Flags};
ghost use Rattle.command_core.specs.declared.operands.Operand.{Operand};
ghost use Rattle.change_outcome.specs.db_core.Packages.{lists_path};
ghost use Rattle.dep_core.specs.LeadingSlash.{without_leading_slash};
ghost use Rattle.tell_core.specs.file_owners.Replaces.{package_version_text};
ghost use Rattle.tell_core.specs.InfoForm.{info_form_of_flags};
ghost use Rattle.tell_core.specs.Info.{info_refusal, sorted_package_name_lines, operands_info, package_info_for_operand_text};
ghost use Rattle.tell_core.specs.InfoPackages.{package_meant_by_operand_text, package_named};
ghost use Rattle.report_core.specs.Reports.{owner_text, report_line, report_lines};
ghost use Rattle.report_core.specs.declared.refusal.Refusal.TheVariants.{NotInstalled};

/// Without an operand `info` prints the name of each package, in byte order, in whatever order the
/// database has them.
pub fn info_prints_the_names_in_byte_order()
    ensures { (packages : List Plain)
        → HasSortedPackageNameLines packages (sorted_package_name_lines packages) }
{}

/// `info` refuses the first operand for which no package is found, and reports its place in the
/// command line.
pub fn info_refuses_the_first_absent_operand()
    ensures { (flags : Flags) (packages : List Plain) (operands : List Operand) (place : ℕ)
        → (info_refusal (info_form_of_flags flags) packages operands ≡ Some (NotInstalled place))
        ↔ IsPlaceOfFirstOperandNotFound flags packages operands place }
{}

/// `info -e` prints exactly those of its operands that are names of installed packages, in the
/// order given.
pub fn info_prints_the_installed_operands()
    ensures { (flags : Flags) (packages : List Plain) (operands : List Operand)
        → flags.who_owns ≡ false → flags.installed ≡ true
        → operands_info (info_form_of_flags flags) packages operands
        ≡ report_lines (map (λ (o : Operand). o.text)
        (filter (λ (o : Operand). is_some (package_named packages o.text)) operands)) }
{}

/// Each flag of `info` has its own answer on a package: `-L` the paths that it lists, `-R` its
/// dependencies, both in the order of the database; without a flag its description; `-W` says that
/// it owns the path.
pub fn each_question_of_info_has_its_answer()
    // With `--contents`: the paths of the package, in their order.
    ensures contents { (flags : Flags) (name : List ℕ) (pkg : Plain)
        → flags.who_owns ≡ false → flags.installed ≡ false → flags.contents ≡ true
        → package_info_for_operand_text (info_form_of_flags flags) name pkg
        ≡ section_text_with_heading (info_heading pkg (codes " contains:"))
        (file_paths_in_listed_order pkg) }
    // The paths in this section are exactly those that the package lists.
    ensures listed { (pkg : Plain) (path : List ℕ)
        → IsIn path (file_paths_in_listed_order pkg) ↔ (lists_path path pkg ≡ true) }
    // With `--depends`: the dependencies of the package.
    ensures depends { (flags : Flags) (name : List ℕ) (pkg : Plain)
        → flags.who_owns ≡ false → flags.installed ≡ false → flags.contents ≡ false
        → flags.depends ≡ true
        → package_info_for_operand_text (info_form_of_flags flags) name pkg
        ≡ section_text_with_heading (info_heading pkg (codes " depends on:"))
        (depends_texts_of_package pkg) }
    // Without one of these options: the description of the package.
    ensures description { (flags : Flags) (name : List ℕ) (pkg : Plain)
        → flags.who_owns ≡ false → flags.installed ≡ false → flags.contents ≡ false
        → flags.depends ≡ false
        → package_info_for_operand_text (info_form_of_flags flags) name pkg
        ≡ section_text_with_heading (info_heading pkg (codes " description:"))
        (text_in (info_field (codes "description") pkg) ∷ []) }
    // With `--who-owns`: a line with the path, without a leading slash, and the owner's name and
    // version.
    ensures owner { (flags : Flags) (path : List ℕ) (pkg : Plain) → flags.who_owns ≡ true
        → package_info_for_operand_text (info_form_of_flags flags) path pkg
        ≡ report_line (owner_text (without_leading_slash path) (package_name pkg)
        (package_version_text pkg)) }
{}

/// The report of `info` on several operands is that on each of them, one after the other, in the
/// order given, also if an operand is given twice. An operand without a package adds nothing.
pub fn info_answers_each_operand_in_the_order_given()
    // Without operands the report is empty.
    ensures none { (flags : Flags) (packages : List Plain)
        → operands_info (info_form_of_flags flags) packages [] ≡ [] }
    // An operand with a package has its lines at its place in the report.
    ensures found { (flags : Flags) (packages : List Plain) (front rest : List Operand)
        (o : Operand) (pkg : Plain)
        → package_meant_by_operand_text (info_form_of_flags flags) packages o.text ≡ Some pkg
        → operands_info (info_form_of_flags flags) packages (front ++ o ∷ rest)
        ≡ operands_info (info_form_of_flags flags) packages front
        ++ (package_info_for_operand_text (info_form_of_flags flags) o.text pkg
        ++ operands_info (info_form_of_flags flags) packages rest) }
    // An operand without a package has no lines.
    ensures absent { (flags : Flags) (packages : List Plain) (front rest : List Operand)
        (o : Operand) → package_meant_by_operand_text (info_form_of_flags flags) packages o.text
        ≡ None
        → operands_info (info_form_of_flags flags) packages (front ++ o ∷ rest)
        ≡ operands_info (info_form_of_flags flags) packages front
        ++ operands_info (info_form_of_flags flags) packages rest }
{}
