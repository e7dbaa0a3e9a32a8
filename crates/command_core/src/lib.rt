//! The parts of a command, after apk(8): its applet, the options that it was given, its operands,
//! and which of them may be combined.
//!
//! `words_core` reads a `Command` from the words of a command line; to carry it out needs only this
//! crate. Of `specs/` the contracts cite `Command` and `Sound` (what a command is), `Applets`
//! (which operands each applet takes), `Flags`, `Operands`, `Values`, `Files` and `Named`. The
//! rules are in `docs/commands.md`, "Words".
#![tactic(auto)]

mod command;
mod operands;
mod texts;
mod values;

pub use command::{Applet, Command, Flag, Flags};
pub use operands::{
    Operand, OperandKind, OperandRule, Operands, a_command_has_what_its_applet_may_have,
    file_operands_are_files, values_are_of_their_kind,
};
pub use texts::{
    LONGEST_OUTPUT, is_among, is_decimal_without_leading_zeros, without_one_leading_dot_slash,
};
pub use values::{
    COMPRESSION, DESCRIPTION, FILES, INFO, OUTPUT, OptionValue, SCRIPT, TRIGGER, ValueKind,
    ValueRule, Values,
};
