//! What `version` answers.
//! The rules are in `docs/commands.md`, "`version --test VERSION VERSION`" and "`version --check
//! TEXT..`".

ghost use Rattle.std.specs.Prelude.{◌≡◌, ◌↔◌, ◌∷◌, [], ℕ, List, Some, None, codes, map, not, true, false};
ghost use Rattle.std.specs.List.{filter};
ghost use Rattle.std.specs.declared.cmp.Ordering.TheVariants.{Less, Equal, Greater};
ghost use Rattle.base_core.specs.Files.{Files};
ghost use Rattle.command_core.specs.declared.command.Flags.{Flags};
ghost use Rattle.command_core.specs.declared.operands.Operand.{Operand};
ghost use Rattle.outcome.specs.Version.{version};
ghost use Rattle.definition_laws.specs.outcomes.CheckedVersions.{AreBothVersions, IsPlaceOfFirstInvalidVersion};
ghost use Rattle.report_core.specs.Reports.{report_lines};
ghost use Rattle.report_core.specs.declared.refusal.Refusal.TheVariants.{VersionBad};
ghost use Rattle.version_core.specs.Order.{is_version, version_cmp};

/// `version --test` of two versions prints `<`, `=` or `>` exactly if the first is less than, equal
/// to, or greater than the second. It is refused, and prints nothing, exactly if one of them is no
/// version.
pub fn version_prints_the_order()
    // `<` is printed exactly if the first version is less.
    ensures less { (files : Files) (flags : Flags) (a b : Operand)
        → flags.test ≡ true → AreBothVersions a b
        → ((version files flags (a ∷ b ∷ [])).out ≡ codes "<\n")
        ↔ (version_cmp a.text b.text ≡ Less) }
    // `=` is printed exactly if the versions are equal.
    ensures equal { (files : Files) (flags : Flags) (a b : Operand)
        → flags.test ≡ true → AreBothVersions a b
        → ((version files flags (a ∷ b ∷ [])).out ≡ codes "=\n")
        ↔ (version_cmp a.text b.text ≡ Equal) }
    // `>` is printed exactly if the first version is greater.
    ensures greater { (files : Files) (flags : Flags) (a b : Operand)
        → flags.test ≡ true → AreBothVersions a b
        → ((version files flags (a ∷ b ∷ [])).out ≡ codes ">\n")
        ↔ (version_cmp a.text b.text ≡ Greater) }
    // If an operand is no version, nothing is printed.
    ensures refused { (files : Files) (flags : Flags) (a b : Operand) → flags.test ≡ true
        → (AreBothVersions a b → ⊥) → (version files flags (a ∷ b ∷ [])).out ≡ [] }
    // The command is not refused exactly if both operands are versions.
    ensures accepted { (files : Files) (flags : Flags) (a b : Operand) → flags.test ≡ true
        → ((version files flags (a ∷ b ∷ [])).refusal ≡ None) ↔ AreBothVersions a b }
{}

/// `version --check` prints exactly those operands that are no versions, a line each, in the order
/// given.
pub fn version_prints_what_is_no_version()
    ensures { (files : Files) (flags : Flags) (operands : List Operand) → flags.test ≡ false
        → (version files flags operands).out
        ≡ report_lines (map (λ (o : Operand). o.text)
        (filter (λ (o : Operand). not (is_version o.text)) operands)) }
{}

/// `version` is refused exactly for the first operand that is no version.
pub fn version_refuses_the_first_that_is_no_version()
    ensures { (files : Files) (flags : Flags) (operands : List Operand) (place : ℕ)
        → ((version files flags operands).refusal ≡ Some (VersionBad place))
        ↔ IsPlaceOfFirstInvalidVersion operands place }
{}
