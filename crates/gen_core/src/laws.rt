//! Laws about the definitions, for every text, each as the contract of a function that does
//! nothing. The rule is in `docs/formats.md`, "Dump text".
ghost use Rattle.std.specs.Prelude.{◌≡◌, ℕ, List, Ok, Err};
ghost use Rattle.adb_view.specs.Plain.{Plain};
ghost use Rattle.adb_view.specs.declared.tables.Which.{Which};
ghost use Rattle.adb_dump.specs.Dump.{dump_text};
ghost use Rattle.gen_core.specs.Dumps.{IsFirstBadDumpLine, IsNormalRootValueOfTable};
ghost use Rattle.gen_core.specs.Generated.{DumpedRoot, dumped_root};

/// A law: a text is accepted exactly if it is the dump text of a root, and it is read as this root.
pub fn a_text_is_accepted_exactly_if_a_root_has_it()
    // A text that is read as a root is the dump of this root.
    ensures said { (text : List ℕ) (root : DumpedRoot) → dumped_root text ≡ Ok root
        → IsNormalRootValueOfTable root.which root.value × (dump_text root.which root.value
        ≡ text) }
    // The dump of a root is read as this root.
    ensures accepted { (which : Which) (value : Plain) → IsNormalRootValueOfTable which value
        → dumped_root (dump_text which value) ≡ Ok (record { which = which; value = value }) }
{}

/// A law: the line that is reported is the first that no dump has after the lines before it. A text
/// has at most one such line, so this determines which line is reported.
pub fn the_reported_line_is_the_first_that_no_dump_has()
    // A reported line is the first bad line.
    ensures first { (text : List ℕ) (number : ℕ) → dumped_root text ≡ Err number
        → IsFirstBadDumpLine text number }
    // A text has at most one first bad line.
    ensures one { (text : List ℕ) (number other : ℕ) → IsFirstBadDumpLine text number
        → IsFirstBadDumpLine text other → number ≡ other }
{}
