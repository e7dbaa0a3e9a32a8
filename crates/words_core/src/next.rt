//! What the next word of a command line can be, and what a word asks for if an option can be there:
//! help, or the version of the program. The rules are in `docs/commands.md`, "Words" and "Help".
ghost use Rattle.std.specs.Prelude.{◌≡◌, ◌+◌, ◌≤◌, IsTrue, length, take};
ghost use Rattle.words_core.specs.Grammar.{help_or_version_option_at, is_option_or_double_dash, next_word_of_command_line, next_word, awaited_rule, can_be_option};
ghost use Rattle.words_core.specs.Options.{options_of};
ghost use Rattle.words_core.specs.declared.next.NextWord.TheVariants.{OptionOrCommand, OptionOrOperand};

use crate::options::{applet_of, applet_of_help_or_version_option, option_of_word};
use crate::word::{
    is_double_dash, is_option_or_double_dash, option_word_without_value,
    value_in_long_or_short_option_word,
};
use base_core::Words;
use command_core::{Applet, ValueRule};

/// What the next word of a command line can be.
#[derive(Clone, Copy)]
pub(crate) enum NextWord {
    /// An option, `--`, or the command.
    OptionOrCommand,
    /// The command: `--` has ended the options.
    Command,
    /// An option of the command, `--`, or an operand.
    OptionOrOperand(Applet),
    /// The value of the command's option that has this rule.
    Value(Applet, ValueRule),
    /// An operand: `--` has ended the options.
    Operand(Applet),
    /// Nothing, since the word at the place of the command names no command.
    Nothing,
}

impl NextWord {
    // What the word after this one can be, if `self` is what this word could be.
    fn after(self, word: &[u8]) -> NextWord
        ensures { result ≡ next_word self word.now }
    {
        match self {
            NextWord::OptionOrCommand => after_start(word),
            // The command follows `--`, so that only operands can follow it.
            NextWord::Command => match applet_of(word) {
                Some(applet) => NextWord::Operand(applet),
                None => NextWord::Nothing,
            },
            NextWord::OptionOrOperand(applet) => after_applet(applet, word),
            NextWord::Value(applet, _) => NextWord::OptionOrOperand(applet),
            NextWord::Operand(applet) => NextWord::Operand(applet),
            NextWord::Nothing => NextWord::Nothing,
        }
    }

    /// Whether an option can be the next word.
    pub(crate) fn can_be_option(self) -> bool
        ensures { result ≡ can_be_option self }
    {
        matches!(
            self,
            NextWord::OptionOrCommand | NextWord::OptionOrOperand(_)
        )
    }
}

// What the word after this one can be, if this one is an option before the command, `--`, or the
// command.
fn after_start(word: &[u8]) -> NextWord
    ensures { result ≡ next_word OptionOrCommand word.now }
{
    if is_double_dash(word) {
        return NextWord::Command;
    }
    if is_option_or_double_dash(word) {
        return NextWord::OptionOrCommand;
    }
    match applet_of(word) {
        Some(applet) => NextWord::OptionOrOperand(applet),
        None => NextWord::Nothing,
    }
}

// What the word after this one can be, if this one is an option of the command, `--`, or an
// operand.
fn after_applet(applet: Applet, word: &[u8]) -> NextWord
    ensures { result ≡ next_word (OptionOrOperand applet) word.now }
{
    if is_double_dash(word) {
        return NextWord::Operand(applet);
    }
    if !is_option_or_double_dash(word) {
        return NextWord::OptionOrOperand(applet);
    }
    match awaited_rule(applet, word) {
        Some(rule) => NextWord::Value(applet, rule),
        None => NextWord::OptionOrOperand(applet),
    }
}

// The rule of the values of the option that a word spells, if its value must be the next word. None
// for a flag, and if the word itself holds the value.
fn awaited_rule(applet: Applet, word: &[u8]) -> Option<ValueRule>
    requires { IsTrue (is_option_or_double_dash word.now) }
    ensures { result ≡ awaited_rule (options_of applet) word.now }
{
    if value_in_long_or_short_option_word(word).is_some() {
        return None;
    }
    match option_of_word(applet, option_word_without_value(word)) {
        Some(option) => option.meaning.rule(),
        None => None,
    }
}

/// What the word after the first `count` words of a command line can be.
pub(crate) fn next_word_of_command_line(words: &Words, count: usize) -> NextWord
    requires { count ≤ length words.now }
    ensures { result ≡ next_word_of_command_line (take count words.now) }
{
    let mut next = NextWord::OptionOrCommand;
    for i in 0..count {
        next = next.after(words.word(i));
    }
    next
}

/// The applet `Help` or `ProgramVersion`, if the word at a place asks for it and an option can be
/// there.
pub(crate) fn help_or_version_option_at(words: &Words, place: u32) -> Option<Applet>
    requires low { 1 ≤ place }
    requires high { place ≤ length words.now + 1 }
    ensures { result ≡ help_or_version_option_at words.now place }
{
    let before = place as usize - 1;
    if !next_word_of_command_line(words, before).can_be_option() {
        return None;
    }
    if before == words.len() {
        return None;
    }
    applet_of_help_or_version_option(words.word(before))
}
