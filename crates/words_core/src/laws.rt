//! Laws of the grammar of command lines. Each is a row of the README of this crate; the rules of
//! the grammar are in `docs/commands.md`, "Words".
ghost use Rattle.std.specs.Prelude.{◌≡◌, ◌≤◌, ◌<◌, ◌+◌, ◌-◌, ◌++◌, ◌⊎◌, ℕ, List, Ok, Err, IsTrue, length, not, take};
ghost use Rattle.std.specs.List.{list_all};
ghost use Rattle.command_core.specs.Command.{CommandLine};
ghost use Rattle.command_core.specs.declared.command.Applet.{Applet};
ghost use Rattle.words_core.specs.Asked.{IsHelpOrVersionAskedBy};
ghost use Rattle.words_core.specs.Grammar.{command_of};
ghost use Rattle.words_core.specs.Kinds.{can_info_kind_follow};
ghost use Rattle.words_core.specs.Lines.{AreWordsOfCommand};
ghost use Rattle.words_core.specs.Options.{applets, common_options, own_options};
ghost use Rattle.words_core.specs.Explained.{are_help_lines_of_options, are_applets_listed_in_help, help_and_version_options};
ghost use Rattle.words_core.specs.HelpTexts.{common_option_help, option_help};
ghost use Rattle.words_core.specs.Reasons.{IsUsageReason};
ghost use Rattle.words_core.specs.Rows.{are_values_stored_under_short_letter};
ghost use Rattle.words_core.specs.Usage.{usage_reason};
ghost use Rattle.words_core.specs.Stuck.{is_command_line_stuck};

/// If a command is read from words, the words are that command: its applet, its operands and its
/// options, and nothing else; or one of the words asks for the command, as `--help` does.
pub fn read_words_are_a_command()
    ensures { (words : List (List ℕ)) (command : CommandLine) → command_of words ≡ Ok command →
        AreWordsOfCommand words command ⊎ IsHelpOrVersionAskedBy words command }
{}

/// If words are a command, it is read from them, wherever its options are. The same holds of words
/// that ask for help or for the version.
pub fn commands_are_read()
    ensures { (words : List (List ℕ)) (command : CommandLine) →
        AreWordsOfCommand words command ⊎ IsHelpOrVersionAskedBy words command
        → command_of words ≡ Ok command }
{}

/// A usage error is at the place of a word, or after the last word if a word is missing.
pub fn usage_errors_are_at_words()
    ensures { (words : List (List ℕ)) (place : ℕ) → command_of words ≡ Err place →
        (1 ≤ place) × (place ≤ length words + 1) }
{}

/// A wrong word is wrong whatever follows, unless the words are `info` without a kind that can
/// still follow: `info usr/x` is refused at `usr/x`, and `info usr/x -W` is not.
pub fn words_offend_whatever_follows()
    ensures { (words more : List (List ℕ)) (place : ℕ) →
        IsTrue (not (can_info_kind_follow words)) → command_of words ≡ Err place →
        place ≤ length words → command_of (words ++ more) ≡ Err place }
{}

/// The words before a usage error can be completed to a command, unless they are stuck. They are
/// stuck in three cases. No applet is named yet, and none has all the options before it. Or `--`,
/// other than as a value, has ended the options while `version` lacks its kind or `mkndx` its `-o`.
/// Or `mkpkg` awaits one more script and has one of each of the seven types.
pub fn words_before_a_usage_error_can_be_completed()
    ensures { (words : List (List ℕ)) (place : ℕ) →
        IsTrue (not (is_command_line_stuck (take (place - 1) words))) → command_of words
        ≡ Err place →
        (more : List (List ℕ)) × (command : CommandLine)
        × (command_of (take (place - 1) words ++ more) ≡ Ok command) }
{}

/// Stuck words are no command, whatever words follow.
pub fn stuck_words_are_no_command()
    ensures { (words more : List (List ℕ)) → IsTrue (is_command_line_stuck words) →
        (place : ℕ) × (command_of (words ++ more) ≡ Err place) }
{}

/// If words follow a command, a usage error is after the command, not at one of its words. The
/// exception is `info` without a kind that can still follow: `info a b` is a command, and `info a b
/// -W` is refused at `b`.
pub fn what_follows_a_command_offends_after_it()
    ensures { (words more : List (List ℕ)) (command : CommandLine) (place : ℕ) →
        IsTrue (not (can_info_kind_follow words)) → command_of words ≡ Ok command →
        command_of (words ++ more) ≡ Err place → length words < place }
{}

/// The letter under which the values of an option are stored is that of the option's short word.
pub fn letters_are_those_of_short_words()
    ensures { (applet : Applet)
        → IsTrue (list_all are_values_stored_under_short_letter (own_options applet)) }
{}

/// The reason that the line after a usage error gives is true, of the word at the place or of the
/// words before it.
pub fn a_reason_is_so()
    ensures { (words : List (List ℕ)) (place : ℕ) → command_of words ≡ Err place →
        IsUsageReason (usage_reason words place) words place }
{}

/// The help of a command explains each option of it, in the order of the table of options, and
/// nothing else.
pub fn help_explains_each_option()
    // The help of each command has a line for each option of its own, in order.
    ensures own { (applet : Applet)
        → IsTrue (are_help_lines_of_options (option_help applet) (own_options
        applet)) }
    // The help lines common to all commands are those of the common options, `--help` and
    // `--version`.
    ensures common { IsTrue (are_help_lines_of_options common_option_help (common_options
        ++ help_and_version_options)) }
    // The help of the program lists the word of each applet.
    ensures listed { IsTrue (are_applets_listed_in_help applets) }
{}
