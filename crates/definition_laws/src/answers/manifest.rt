//! A law: what `manifest` prints, and when it is not refused. The rules are in `docs/commands.md`,
//! "`manifest`".

ghost use Rattle.std.specs.Prelude.{ℕ, ◌≡◌, ◌↔◌, List, Ok};
ghost use Rattle.adb_view.specs.Plain.{Plain};
ghost use Rattle.definition_laws.specs.answers.ManifestLines.{HasManifestLinesOfOperands};
ghost use Rattle.audit_core.specs.Manifest.{manifest_of};
ghost use Rattle.command_core.specs.declared.operands.Operand.{Operand};

/// `manifest` is accepted exactly if each operand names an installed package. It prints a line for
/// each file of these packages and no other, in the order of the operands, and of each package in
/// the order of the database.
pub fn manifest_prints_each_file_of_the_packages_that_are_named()
    ensures { (packages : List Plain) (operands : List Operand) (text : List ℕ)
        → (manifest_of packages operands ≡ Ok text)
        ↔ HasManifestLinesOfOperands packages operands text }
{}
