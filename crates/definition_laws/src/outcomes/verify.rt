//! What `verify` answers.
//! The rules are in `docs/commands.md`, "`verify FILE..`".

ghost use Rattle.std.specs.Prelude.{◌≡◌, ◌↔◌, ◌++◌, [], List, Some, None, codes, is_some, map, true};
ghost use Rattle.base_core.specs.Files.{Files};
ghost use Rattle.command_core.specs.Files.{without_one_leading_dot_slash};
ghost use Rattle.command_core.specs.declared.operands.Operand.{Operand};
ghost use Rattle.outcome.specs.make_info.Reads.{Reads};
ghost use Rattle.outcome.specs.Verify.{verify};
ghost use Rattle.definition_laws.specs.outcomes.TestedFiles.{AreFilesSound, IsRefusalOfFirstUnsoundFile};
ghost use Rattle.report_core.specs.Reports.{report_lines};
ghost use Rattle.report_core.specs.declared.refusal.Refusal.{Refusal};

/// `verify` is not refused exactly if each file is there and passes every test of a container.
pub fn verify_is_not_refused_if_every_test_holds()
    ensures { (read : Reads) (files : Files) (operands : List Operand)
        → ((verify read files operands).refusal ≡ None) ↔ AreFilesSound read operands }
{}

/// `verify` is refused for the first file that is absent, or that fails a test; the refusal has the
/// cause of the first test that this file fails.
pub fn verify_refuses_the_first_bad_file()
    ensures { (read : Reads) (files : Files) (operands : List Operand) (refusal : Refusal)
        → (verify read files operands).refusal ≡ Some refusal
        → IsRefusalOfFirstUnsoundFile read operands refusal }
{}

/// `verify` prints `FILE: OK` for each file, in the order given, unless it is refused; then it
/// prints nothing.
pub fn verify_prints_ok_for_each_file()
    // Without a refusal each operand has the line `FILE: OK`.
    ensures printed { (read : Reads) (files : Files) (operands : List Operand)
        → (verify read files operands).refusal ≡ None
        → (verify read files operands).out
        ≡ report_lines (map (λ (o : Operand). without_one_leading_dot_slash o.text
        ++ codes ": OK") operands) }
    // With a refusal nothing is printed on standard output.
    ensures refused { (read : Reads) (files : Files) (operands : List Operand)
        → is_some (verify read files operands).refusal ≡ true
        → (verify read files operands).out ≡ [] }
{}
