//! The texts of the reasons of usage errors. They are listed in `docs/commands.md`, "Help".
ghost use Rattle.std.specs.Prelude.{◌≡◌};
ghost use Rattle.words_core.specs.Usage.{operand_kind_description, description_of_expected_kind, reason_text, value_kind_description};

use crate::usage::UsageReason;
use command_core::{OperandKind, ValueKind};

/// The text of a reason.
pub(crate) fn reason_text(reason: UsageReason) -> &'static [u8]
    ensures { result.now ≡ reason_text reason }
{
    match reason {
        UsageReason::CommandMissing => b"a command is missing",
        UsageReason::CommandUnknown => b"unknown command",
        UsageReason::OptionEarly => b"no option that can be before the command",
        UsageReason::OptionUnknown => b"no option of this command",
        UsageReason::OptionRepeated => b"this option was given before",
        UsageReason::SecondKind => b"only one such option can be given",
        UsageReason::ValueGiven => b"this option has no value",
        UsageReason::ValueMissing => b"the value of the last option is missing",
        UsageReason::ValueBad(_) => b"the value must be ",
        UsageReason::ScriptRepeated => b"a script of this type was given before",
        UsageReason::TooManyOperands => b"too many operands",
        UsageReason::OperandBad(_) => b"an operand must be ",
        UsageReason::OperandMissing(_) => b"an operand is missing: ",
        UsageReason::KindMissing => b"an option is missing: --test or --check",
        UsageReason::OptionMissing => b"an option is missing: --output",
    }
}

/// What ends the text of a reason: the kind of the value or operand, if it is about one.
pub(crate) fn description_of_expected_kind(reason: UsageReason) -> &'static [u8]
    ensures { result.now ≡ description_of_expected_kind reason }
{
    match reason {
        UsageReason::ValueBad(kind) => value_kind_description(kind),
        UsageReason::OperandBad(kind) | UsageReason::OperandMissing(kind) => {
            operand_kind_description(kind)
        }
        _ => b"",
    }
}

// What a value of an option is.
fn value_kind_description(kind: ValueKind) -> &'static [u8]
    ensures { result.now ≡ value_kind_description kind }
{
    match kind {
        ValueKind::Any => b"a text",
        ValueKind::Nonempty => b"a text that is not empty",
        ValueKind::File => b"a path below this folder",
        ValueKind::Output => b"a path of at most 1016 bytes below this folder",
        ValueKind::Uncompressed => b"none",
        ValueKind::Script => {
            b"TYPE:FILE with TYPE trigger or (pre|post)-(install|deinstall|upgrade)"
        }
    }
}

// What an operand is.
fn operand_kind_description(kind: OperandKind) -> &'static [u8]
    ensures { result.now ≡ operand_kind_description kind }
{
    match kind {
        OperandKind::File => b"a path below this folder",
        OperandKind::Any => b"a text",
        OperandKind::Dependency => b"a dependency",
        OperandKind::DependencyName => b"the name of a dependency",
        OperandKind::PackageName => b"the name of a package",
        OperandKind::Path => b"a path",
        OperandKind::Number => b"a number from 1 to 20000",
        OperandKind::Pattern => b"a pattern",
    }
}
