//! Why words are a usage error, and the line that explains it to the user. No function here
//! allocates memory. The texts are listed in `docs/commands.md`, "Help".
ghost use Rattle.std.specs.Prelude.{◌≡◌, ◌-◌, ◌+◌, ◌<◌, ◌≤◌, Some, IsTrue, drop, length, map, slice_get, take};
ghost use Rattle.std.specs.Option.{option_map};
ghost use Rattle.base_core.specs.Sink.{sink_before_and_after};
ghost use Rattle.base_core.specs.Write.{Writes};
ghost use Rattle.words_core.specs.Grammar.{applet_site, option_state_at_start, is_option_or_double_dash, start_of_command_line, next_word_of_command_line, reading_of_words_from_place, reading_of_rest_of_command_words};
ghost use Rattle.words_core.specs.Options.{options_of};
ghost use Rattle.words_core.specs.Rows.{option_spec};
ghost use Rattle.words_core.specs.Steps.{operands_depend_on_flags, flags_with_spelled_option, has_no_values};
ghost use Rattle.words_core.specs.declared.next.NextWord.TheVariants.{OptionOrOperand};
ghost use Rattle.words_core.specs.Usage.{space_before_help_topic, help_topic_word, command_reason, early_reason, end_reason, hex_digit, end_of_usage_hint, usage_hint_text, is_plain_byte, line_reason, operand_rule_of_words, most_shown_bytes, meaning_reason, missing_reason, operand_reason, option_reason, shown_word_with_place, repeated_value_reason, shown_byte, shown_bytes, texts_joined, usage_if_no_words, usage_reason, value_reason, closing_quote_of_shown_word, text_before_shown_word, word_reason};

use crate::help_rows::PROGRAM_USAGE;
use crate::next::{NextWord, next_word_of_command_line};
use crate::options::{
    Meaning, OptionRow, applet_word, flags_with_option_word_if_one_command_kind, option_of_word,
};
use crate::reading::{Start, find_applet, read_start};
use crate::usage_texts::{description_of_expected_kind, reason_text};
use crate::word::{
    is_double_dash, is_option_or_double_dash, option_word_without_value,
    value_in_long_or_short_option_word,
};
use base_core::{Sink, SinkFault, Words, write_all};
use command_core::{Applet, Flags, OperandKind, OperandRule, ValueKind, ValueRule};
use itoa::Buffer;

/// How many bytes of a word are shown.
pub const LONGEST_SHOWN: usize = 64;

/// Why words are a usage error at a place. In the variants, "the word" is the word at this place.
#[derive(Clone, Copy)]
pub enum UsageReason {
    /// The words end, and no command was found.
    CommandMissing,
    /// The word names no command.
    CommandUnknown,
    /// The word is no option that can be before the command.
    OptionEarly,
    /// The word spells no option of the command.
    OptionUnknown,
    /// The word gives an option that can be given only once, and was given before.
    OptionRepeated,
    /// The word selects a kind of the command, and an earlier option has selected another kind.
    SecondKind,
    /// The word is an option that takes no value, and holds one.
    ValueGiven,
    /// The words end where the value of an option is awaited.
    ValueMissing,
    /// The word is or holds a value of an option, and the value is not of this kind, as it must be.
    ValueBad(ValueKind),
    /// A script of the same type was given before.
    ScriptRepeated,
    /// The command takes no further operand.
    TooManyOperands,
    /// The word is an operand of the command, and is not of this kind, as it must be.
    OperandBad(OperandKind),
    /// An operand of this kind is missing.
    OperandMissing(OperandKind),
    /// The option that selects the kind of the command is missing: `version` needs `-t` or `-c`.
    KindMissing,
    /// The option that the command needs is missing: `mkndx` needs `-o`.
    OptionMissing,
}

// ---- the reason

// Why words are a usage error at a place.
#[tactic(auto, unfolding(crate::specs::Usage::usage_reason))]
fn usage_reason(words: &Words, place: u32) -> UsageReason
    ensures { result ≡ usage_reason words.now place }
{
    let next = next_before(words, place);
    match read_start(words) {
        Ok(start) => line_reason(words, place, &start, next),
        Err(_) => early_reason(words, place, next),
    }
}

// What the word at a place could have been, by the words before this place.
fn next_before(words: &Words, place: u32) -> NextWord
    ensures { result ≡ next_word_of_command_line (take (place - 1) words.now) }
{
    let before = (place as usize).saturating_sub(1);
    if before < words.len() {
        next_word_of_command_line(words, before)
    } else {
        next_word_of_command_line(words, words.len())
    }
}

/// The word at a place, if there is one.
pub fn word_at(words: &Words, place: u32) -> Option<&[u8]>
    ensures { option_map (λ word. word.now) result ≡ slice_get words.now (place - 1) }
{
    let before = (place as usize).saturating_sub(1);
    if before < words.len() {
        return Some(words.word(before));
    }
    None
}

// Why a place offends if the command was not found, or an option before it is none of its options.
// `next` is what the word at the place could have been.
fn early_reason(words: &Words, place: u32, next: NextWord) -> UsageReason
    ensures { result ≡ early_reason (applet_site 1 words.now) next
        (slice_get words.now (place - 1)) }
{
    match find_applet(words) {
        Ok(_) => UsageReason::OptionUnknown,
        Err(_) => command_reason(next, word_at(words, place)),
    }
}

// Why a place offends if the command was not found, by what the word there could have been
// (`next`), and by the word there, if there is one.
fn command_reason(next: NextWord, word: Option<&[u8]>) -> UsageReason
    ensures { result ≡ command_reason next (option_map (λ w. w.now) word.entry) }
{
    let Some(word) = word else {
        return UsageReason::CommandMissing;
    };
    match next {
        NextWord::OptionOrCommand if is_option_or_double_dash(word) => UsageReason::OptionEarly,
        _ => UsageReason::CommandUnknown,
    }
}

// Why a place after the command offends, by what the word there could have been (`next`).
fn line_reason(words: &Words, place: u32, start: &Start, next: NextWord) -> UsageReason
    requires { start_of_command_line words.now ≡ Ok start.now }
    ensures { result ≡ line_reason start.now.applet (operand_rule_of_words words.now start.now) next
        (slice_get words.now (place - 1)) }
{
    let rule = operand_rule_of_words(words, start);
    match word_at(words, place) {
        Some(word) => word_reason(rule, word, next),
        None => end_reason(start.applet, rule, next),
    }
}

// Which word is missing after the last one. `rule` is that of the operands, and `next` is what a
// further word could be.
fn end_reason(applet: Applet, rule: Option<OperandRule>, next: NextWord) -> UsageReason
    ensures { result ≡ end_reason applet rule next }
{
    match next {
        NextWord::Value(_, _) => UsageReason::ValueMissing,
        _ => missing_reason(applet.required_option_letter(), rule),
    }
}

// Which word is missing after the last one, if no value is awaited. `needed` is the letter of the
// option that the command requires, and `rule` is that of the operands.
fn missing_reason(needed: Option<u8>, rule: Option<OperandRule>) -> UsageReason
    ensures { result ≡ missing_reason needed rule }
{
    if needed.is_some() {
        return UsageReason::OptionMissing;
    }
    match rule {
        Some(rule) => UsageReason::OperandMissing(rule.kind),
        None => UsageReason::KindMissing,
    }
}

// Why a word after the command is wrong, by the rule of the operands, and by what the word could
// have been (`next`).
fn word_reason(rule: Option<OperandRule>, word: &[u8], next: NextWord) -> UsageReason
    ensures { result ≡ word_reason rule word.now next }
{
    match next {
        NextWord::OptionOrCommand => UsageReason::OptionUnknown,
        NextWord::Command | NextWord::Nothing => UsageReason::CommandUnknown,
        // `value` is the rule of the option whose value is awaited.
        NextWord::Value(_, value) => value_reason(value, word),
        NextWord::Operand(_) => operand_reason(word, rule),
        NextWord::OptionOrOperand(applet) => free_reason(applet, rule, word),
    }
}

// Why a word after the command is wrong, if the word could be an option or an operand.
fn free_reason(applet: Applet, rule: Option<OperandRule>, word: &[u8]) -> UsageReason
    ensures { result ≡ word_reason rule word.now (OptionOrOperand applet) }
{
    if !is_option_or_double_dash(word) {
        return operand_reason(word, rule);
    }
    if is_double_dash(word) {
        return operand_reason(word, rule);
    }
    option_reason(
        word,
        option_of_word(applet, option_word_without_value(word)),
    )
}

// Why a word cannot be read as an option, by the option of the command that it spells, if it spells
// one.
fn option_reason(word: &[u8], option: Option<OptionRow>) -> UsageReason
    ensures { result ≡ option_reason word.now (option_map option_spec option) }
{
    match option {
        Some(option) => meaning_reason(value_in_long_or_short_option_word(word), option.meaning),
        None => UsageReason::OptionUnknown,
    }
}

// Why an option of the command cannot be given, by its meaning and by the value that its word holds
// (`held`).
fn meaning_reason(held: Option<&[u8]>, meaning: Meaning) -> UsageReason
    ensures { result ≡ meaning_reason (option_map (λ text. text.now) held.entry) meaning }
{
    match held {
        Some(text) => match meaning {
            Meaning::Value(rule) => value_reason(rule, text),
            Meaning::Flag(_) | Meaning::Kind(_) => UsageReason::ValueGiven,
        },
        None => match meaning {
            Meaning::Kind(_) => UsageReason::SecondKind,
            // A plain flag may be given again and is never wrong here; the option has a value.
            Meaning::Flag(_) | Meaning::Value(_) => UsageReason::OptionRepeated,
        },
    }
}

// Why a text cannot be a value of the option with this rule.
fn value_reason(rule: ValueRule, text: &[u8]) -> UsageReason
    ensures { result ≡ value_reason rule text.now }
{
    if !rule.kind.has(text) {
        return UsageReason::ValueBad(rule.kind);
    }
    // A text of the right kind is refused only because of an earlier value of the option.
    if rule.single {
        UsageReason::OptionRepeated
    } else {
        UsageReason::ScriptRepeated
    }
}

// Why a word cannot be an operand of the command, by the rule of its operands.
fn operand_reason(word: &[u8], rule: Option<OperandRule>) -> UsageReason
    ensures { result ≡ operand_reason word.now rule }
{
    match rule {
        Some(rule) if !rule.kind.has(word) => UsageReason::OperandBad(rule.kind),
        _ => UsageReason::TooManyOperands,
    }
}

// ---- the operands of the command

// Which operands the command that was found takes, under the flags that are read before and after
// it.
fn operand_rule_of_words(words: &Words, start: &Start) -> Option<OperandRule>
    requires { start_of_command_line words.now ≡ Ok start.now }
    ensures { result ≡ operand_rule_of_words words.now start.now }
{
    // Flags other than those of `info` and `version` make no difference, and are not read again.
    if operands_depend_on_flags(start.applet) {
        return start.applet.operands(read_flags(words, start));
    }
    start.applet.operands(Flags::none())
}

// Whether the flags decide which operands an applet takes.
fn operands_depend_on_flags(applet: Applet) -> bool
    ensures { result ≡ operands_depend_on_flags applet }
{
    matches!(applet, Applet::Info | Applet::Version)
}

// The flags before the command, and those after it up to the first word that cannot be read. No
// option of the command has values.
#[tactic(auto, unfolding(crate::specs::Grammar::reading_of_rest_of_command_words))]
fn read_flags(words: &Words, start: &Start) -> Flags
    requires read { start.now.read ≤ length words.now }
    requires plain { IsTrue (has_no_values start.now.applet) }
    ensures { result ≡ (reading_of_rest_of_command_words start.now words.now).state.flags }
{
    if start.ended {
        return start.flags;
    }
    flags_behind(words, start)
}

// The flags before the command, and those after it up to `--` or the first word that cannot be
// read. No option of the command has values.
fn flags_behind(words: &Words, start: &Start) -> Flags
    requires read { start.now.read ≤ length words.now }
    requires plain { IsTrue (has_no_values start.now.applet) }
    ensures { result ≡ (reading_of_words_from_place (options_of start.now.applet)
        (option_state_at_start start.now.flags) (start.now.read + 1)
        (drop start.now.read words.now)).state.flags }
{
    let mut flags = start.flags;
    for i in start.read..words.len() {
        let word = words.word(i);
        if is_double_dash(word) {
            return flags;
        }
        // The word is an operand.
        if !is_option_or_double_dash(word) {
            continue;
        }
        // An option that cannot be read ends the reading.
        match flags_with_held_meaning(start.applet, flags, word) {
            Some(more) => flags = more,
            None => return flags,
        }
    }
    flags
}

// Flags with the option that a word spells added. None if it spells no flag of the command, holds a
// value, or selects a kind of the command other than that of an earlier flag.
fn flags_with_held_meaning(applet: Applet, flags: Flags, word: &[u8]) -> Option<Flags>
    requires { IsTrue (is_option_or_double_dash word.now) }
    ensures { result ≡ flags_with_spelled_option (options_of applet) flags word.now }
{
    if value_in_long_or_short_option_word(word).is_some() {
        return None;
    }
    flags_with_option_word_if_one_command_kind(
        flags,
        option_of_word(applet, option_word_without_value(word)),
    )
}

// ---- the line

/// Writes the line that explains a usage error at a place to the user: which word it is, why it is
/// wrong, and whose help to read. It allocates no memory. If the sink fails, a prefix of the line
/// was written.
pub fn explain_usage<S: Sink>(words: &Words, place: u32, sink: &mut S) -> Result<(), SinkFault>
    ensures { Writes (usage_hint_text words.now place)
        (sink_before_and_after S.bytes S.counts sink.old sink.new) result }
{
    write_all(sink, b"apk: ")?;
    write_place(words, place, sink)?;
    write_texts(&end_of_usage_hint(words, usage_reason(words, place)), sink)
}

// Writes the place and the word there; nothing if there is no word.
fn write_place<S: Sink>(words: &Words, place: u32, sink: &mut S) -> Result<(), SinkFault>
    ensures { Writes (shown_word_with_place place (slice_get words.now (place - 1)))
        (sink_before_and_after S.bytes S.counts sink.old sink.new) result }
{
    match word_at(words, place) {
        Some(word) => write_word(place, word, sink),
        None => Ok(()),
    }
}

// Writes the place of a wrong word, and the word in quotes.
fn write_word<S: Sink>(place: u32, word: &[u8], sink: &mut S) -> Result<(), SinkFault>
    ensures { Writes (shown_word_with_place place (Some word.now))
        (sink_before_and_after S.bytes S.counts sink.old sink.new) result }
{
    write_front(place, sink)?;
    write_shown(shown_part(word), sink)?;
    write_all(sink, closing_quote_of_shown_word(word))
}

// Writes the text before a word that is shown: its place, and the opening quote.
fn write_front<S: Sink>(place: u32, sink: &mut S) -> Result<(), SinkFault>
    ensures { Writes (text_before_shown_word place)
        (sink_before_and_after S.bytes S.counts sink.old sink.new) result }
{
    let mut digits = Buffer::new();
    write_texts(&[b"word ", digits.format(place).as_bytes(), b", \""], sink)
}

/// The bytes of a word that are shown: at most the first 64.
#[tactic(auto, using(crate::proofs::Hints::take_within))]
pub fn shown_part(word: &[u8]) -> &[u8]
    ensures { result.now ≡ take most_shown_bytes word.now }
{
    if word.len() > LONGEST_SHOWN {
        &word[..LONGEST_SHOWN]
    } else {
        word
    }
}

// The text after a word that is shown: the closing quote, with two dots before it if the word is
// longer than what is shown.
fn closing_quote_of_shown_word(word: &[u8]) -> &'static [u8]
    ensures { result.now ≡ closing_quote_of_shown_word word.now }
{
    if word.len() > LONGEST_SHOWN {
        b"..\": "
    } else {
        b"\": "
    }
}

// Writes bytes as they are shown.
fn write_shown<S: Sink>(bytes: &[u8], sink: &mut S) -> Result<(), SinkFault>
    ensures { Writes (shown_bytes bytes.now)
        (sink_before_and_after S.bytes S.counts sink.old sink.new) result }
{
    for byte in bytes {
        write_byte(*byte, sink)?;
    }
    Ok(())
}

// Writes a byte as it is shown: as it is, or as `\xNN`.
fn write_byte<S: Sink>(byte: u8, sink: &mut S) -> Result<(), SinkFault>
    ensures { Writes (shown_byte byte)
        (sink_before_and_after S.bytes S.counts sink.old sink.new) result }
{
    if is_plain_byte(byte) {
        return write_all(sink, &[byte]);
    }
    write_all(
        sink,
        &[b'\\', b'x', hex_digit(byte / 16), hex_digit(byte % 16)],
    )
}

// Whether a byte is shown as it is: a space or a visible ASCII character, but no quote or
// backslash.
fn is_plain_byte(byte: u8) -> bool
    ensures { result ≡ is_plain_byte byte }
{
    if byte == b'"' || byte == b'\\' {
        return false;
    }
    byte == b' ' || byte.is_ascii_graphic()
}

// The hexadecimal digit of a number below 16, in lower case.
fn hex_digit(number: u8) -> u8
    requires { number < 16 }
    ensures { result ≡ hex_digit number }
{
    if number < 10 {
        b'0' + number
    } else {
        b'a' - 10 + number
    }
}

// Writes texts, one after another.
fn write_texts<S: Sink>(texts: &[&[u8]], sink: &mut S) -> Result<(), SinkFault>
    ensures { Writes (texts_joined (map (λ text. text.now) texts.now))
        (sink_before_and_after S.bytes S.counts sink.old sink.new) result }
{
    for text in texts {
        write_all(sink, *text)?;
    }
    Ok(())
}

// The texts after the wrong word: the reason with the kind that was expected, whose help to read,
// and the usage of the program if there are no words.
fn end_of_usage_hint(words: &Words, reason: UsageReason) -> [&'static [u8]; 7]
    ensures { map (λ text. text.now) result ≡ end_of_usage_hint words.now reason }
{
    [
        reason_text(reason),
        description_of_expected_kind(reason),
        b"; see apk",
        space_before_help_topic(words),
        help_topic_word(words),
        b" --help\n",
        usage_if_no_words(words),
    ]
}

// The space before the word of the command whose help is named; nothing if no command was found.
fn space_before_help_topic(words: &Words) -> &'static [u8]
    ensures { result.now ≡ space_before_help_topic (applet_site 1 words.now) }
{
    match find_applet(words) {
        Ok(_) => b" ",
        Err(_) => b"",
    }
}

// The word of the command whose help is named, or nothing if none was found.
fn help_topic_word(words: &Words) -> &'static [u8]
    ensures { result.now ≡ help_topic_word (applet_site 1 words.now) }
{
    match find_applet(words) {
        Ok(site) => applet_word(site.applet),
        Err(_) => b"",
    }
}

// The usage of the program if there are no words; nothing if there is a word.
#[tactic(auto, unfolding(crate::specs::HelpTexts::program_usage))]
fn usage_if_no_words(words: &Words) -> &'static [u8]
    ensures { result.now ≡ usage_if_no_words words.now }
{
    if words.is_empty() { PROGRAM_USAGE } else { b"" }
}
