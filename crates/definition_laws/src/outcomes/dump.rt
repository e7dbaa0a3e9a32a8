//! What `adbdump` answers.
//! The rules are in `docs/commands.md`, "`adbdump FILE`".

ghost use Rattle.std.specs.Prelude.{ℕ, ◌≡◌, ◌↔◌, ◌∷◌, [], List, Some, None, is_some, true};
ghost use Rattle.base_core.specs.Files.{Files};
ghost use Rattle.base_core.specs.declared.cause.Cause.{Cause};
ghost use Rattle.command_core.specs.Files.{without_one_leading_dot_slash};
ghost use Rattle.command_core.specs.declared.operands.Operand.{Operand};
ghost use Rattle.definition_laws.specs.containers.TestsInOrder.{PassesEveryContainerTest};
ghost use Rattle.outcome.specs.make_info.Reads.{Reads};
ghost use Rattle.outcome.specs.Dump.{adbdump};
ghost use Rattle.definition_laws.specs.outcomes.DumpedFiles.{HasDumpTextByHeaderSchema, IsDumpRefusalCause};
ghost use Rattle.report_core.specs.declared.refusal.Refusal.{Refusal};
ghost use Rattle.report_core.specs.declared.refusal.Refusal.TheVariants.{FileBad, FileMissing};

/// Unless `adbdump` is refused, it prints the dump text of the value of the file: the value in the
/// file's first block, by the schema in the file's header.
pub fn adbdump_prints_the_text_of_the_value()
    ensures { (read : Reads) (files : Files) (o : Operand) (file : List ℕ)
        → read 0 (without_one_leading_dot_slash o.text) ≡ Some file
        → (adbdump read files (o ∷ [])).refusal ≡ None
        → HasDumpTextByHeaderSchema file (adbdump read files (o ∷ [])).out }
{}

/// `adbdump` is not refused for a file that passes every test of a container, and refused for an
/// absent one.
pub fn adbdump_prints_what_passes_every_test()
    // A file that passes every test is not refused.
    ensures sound { (read : Reads) (files : Files) (o : Operand) (file : List ℕ)
        → read 0 (without_one_leading_dot_slash o.text) ≡ Some file → PassesEveryContainerTest file
        → (adbdump read files (o ∷ [])).refusal ≡ None }
    // An absent file is refused as missing.
    ensures absent { (read : Reads) (files : Files) (o : Operand)
        → read 0 (without_one_leading_dot_slash o.text) ≡ None
        → (adbdump read files (o ∷ [])).refusal ≡ Some (FileMissing o.place) }
{}

/// The cause for which `adbdump` refuses a file is that of the first failed test. The tests are, in
/// this order: the header; that the schema is one of the four; the first block; the head of its
/// payload; the shapes of its values; the framing of the further blocks. `adbdump` is refused
/// exactly if one of these tests fails, and prints nothing then. The files stay as they are.
pub fn adbdump_refuses_the_first_failed_test()
    // The cause is the first test that the file fails.
    ensures refused { (read : Reads) (files : Files) (o : Operand) (file : List ℕ) (cause : Cause)
        → read 0 (without_one_leading_dot_slash o.text) ≡ Some file
        → ((adbdump read files (o ∷ [])).refusal ≡ Some (FileBad o.place cause))
        ↔ IsDumpRefusalCause file cause }
    // A file that is found is refused only as bad, with a cause.
    ensures only { (read : Reads) (files : Files) (o : Operand) (file : List ℕ)
        (refusal : Refusal) → read 0 (without_one_leading_dot_slash o.text) ≡ Some file
        → (adbdump read files (o ∷ [])).refusal ≡ Some refusal
        → (cause : Cause) × (refusal ≡ FileBad o.place cause) }
    // With a refusal nothing is printed on standard output.
    ensures nothing { (read : Reads) (files : Files) (o : Operand)
        → is_some (adbdump read files (o ∷ [])).refusal ≡ true
        → (adbdump read files (o ∷ [])).out ≡ [] }
    // The files are unchanged.
    ensures same { (read : Reads) (files : Files) (o : Operand)
        → (adbdump read files (o ∷ [])).files ≡ files }
{}
