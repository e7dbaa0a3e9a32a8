//! The words of a command line, after apk(8): the command that they are, or the first wrong word.
//!
//! `read_words` parses words into a `Command` of `command_core`. Its contract cites `Grammar` (the
//! command of the words, or the first wrong word) and `Options` (the applets that exist, and how
//! their options are spelled) of `specs/`. `Lines` says which words are a command apart from how
//! they are read, `Stuck` which words cannot become one, and the functions of `laws` join them. The
//! rules are in `docs/commands.md`, "Words".
#![tactic(auto)]

mod help_rows;
mod help_texts;
mod laws;
mod next;
mod options;
mod read;
mod reading;
mod usage;
mod usage_texts;
mod word;

pub use command_core::{Applet, Command, Flags, Operand, Operands, OptionValue, Values};
pub use help_texts::{help, version_line};
pub use laws::{
    a_reason_is_so, commands_are_read, help_explains_each_option, letters_are_those_of_short_words,
    read_words_are_a_command, stuck_words_are_no_command, usage_errors_are_at_words,
    what_follows_a_command_offends_after_it, words_before_a_usage_error_can_be_completed,
    words_offend_whatever_follows,
};
pub use read::{WordsFault, read_words};
pub use usage::{LONGEST_SHOWN, explain_usage, shown_part, word_at};
