//! Reads the words from left to right: up to the applet, and then options, their values and
//! operands. The rules are in `docs/commands.md`, "Words". Each function is the definition of its
//! name in `specs/Grammar.antt`, or the one that its contract cites.
ghost use Rattle.std.specs.Prelude.{◌≡◌, ◌+◌, ◌-◌, ◌++◌, ◌≤◌, ◌<◌, Some, None, IfOk, IsTrue, OnOk, length, drop, take, not};
ghost use Rattle.std.specs.Option.{option_map};
ghost use Rattle.command_core.specs.Applets.{required_option_letter};
ghost use Rattle.command_core.specs.Flags.{no_flags};
ghost use Rattle.command_core.specs.Values.{is_required_value_missing};
ghost use Rattle.words_core.specs.Grammar.{applet_site, flags_with_options_before_applet, option_state_at_start, is_option_or_double_dash, is_option_or_value, start_of_command_line, words_as_operands_from_place, reading_of_words_from_place, reading_of_rest_of_command_words, words_reading_from_parts, reading_at_end_of_words, applet_site_of_word, applet_site_after_double_dash, with_flags_if_some, flags_with_meaning_if_one_command_kind, state_with_meaning, with_value_option, with_option_word, with_option_value, with_option_or_value_word};
ghost use Rattle.words_core.specs.Options.{options_of};
ghost use Rattle.words_core.specs.Steps.{IsReadingStep};

use crate::options::{
    Meaning, applet_of, flags_with_option_word_if_one_command_kind,
    is_option_word_that_may_precede_applet, option_of_word,
};
use crate::word::{
    MOST_PLACES, is_double_dash, is_option_or_double_dash, option_word_without_value,
    place_after_word, value_in_long_or_short_option_word,
};
use base_core::Words;
use command_core::{Applet, Flags, Operands, ValueRule, Values};
use std::alloc::{AllocError, Global};

// ---- up to the applet

/// The applet that a command line names, and where its word is.
#[derive(Clone, Copy)]
pub(crate) struct AppletSite {
    /// The applet.
    pub applet: Applet,
    /// Whether `--` precedes the applet's word, so that no options follow.
    pub ended: bool,
    /// How many words are read: those before the applet's word, and this word.
    pub read: usize,
}

/// The applet that a command line names, where its word is, and the flags before this word.
#[derive(Clone, Copy)]
pub(crate) struct Start {
    /// The applet.
    pub applet: Applet,
    /// The flags before the applet's word.
    pub flags: Flags,
    /// Whether `--` precedes the applet's word, so that no options follow.
    pub ended: bool,
    /// How many words are read: those before the applet's word, and this word.
    pub read: usize,
}

/// Reads the words up to the applet. An error is the place of the first wrong word.
pub(crate) fn read_start(words: &Words) -> Result<Start, u32>
    ensures { result ≡ start_of_command_line words.now }
{
    let site = find_applet(words)?;
    let flags = read_early(words, &site)?;
    Ok(Start {
        applet: site.applet,
        flags,
        ended: site.ended,
        read: site.read,
    })
}

/// Looks for the word of the applet, which only some options and `--` may precede. An error is the
/// place of the first wrong word.
pub(crate) fn find_applet(words: &Words) -> Result<AppletSite, u32>
    ensures site { result ≡ applet_site 1 words.now }
    // There are fewer words than places, so that the place after the last word is a number too.
    ensures few { length words.now < MOST_PLACES }
{
    for i in 0..words.len() {
        let word = words.word(i);
        if is_double_dash(word) {
            return applet_after_end(words, i + 1);
        }
        if !is_option_or_double_dash(word) {
            // The first word that is no option must name the applet.
            return applet_at(word, false, i);
        }
        if !is_option_word_that_may_precede_applet(word) {
            return Err(place_after_word(i));
        }
    }
    Err(place_after_word(words.len()))
}

// The site of the applet that the first word after `--` names. The first `before` words end with
// `--`.
#[tactic(auto, unfolding(crate::specs::Grammar::applet_site_after_double_dash), using(crate::proofs::OneMore::left_at))]
fn applet_after_end(words: &Words, before: usize) -> Result<AppletSite, u32>
    requires { before ≤ length words.now }
    ensures { result ≡ applet_site_after_double_dash (before + 1) (drop before words.now) }
{
    if before == words.len() {
        return Err(place_after_word(before));
    }
    applet_at(words.word(before), true, before)
}

// The site of the applet that a word names. `before` words precede it, and `ended` says whether
// `--` is among them. An error is the place of the word.
#[tactic(auto, unfolding(crate::specs::Grammar::applet_site_of_word))]
fn applet_at(word: &[u8], ended: bool, before: usize) -> Result<AppletSite, u32>
    requires { before < MOST_PLACES }
    ensures { result ≡ applet_site_of_word ended (before + 1) word.now }
{
    match applet_of(word) {
        Some(applet) => Ok(AppletSite {
            applet,
            ended,
            read: before + 1,
        }),
        None => Err(place_after_word(before)),
    }
}

// The flags of the words before the applet, up to `--`. An error is the place of the first such
// word that is no option of this applet, or one that takes a value.
fn read_early(words: &Words, site: &AppletSite) -> Result<Flags, u32>
    // The applet's word is among the words that are read.
    requires low { 1 ≤ site.now.read }
    requires high { site.now.read ≤ length words.now }
    // The place after the last word is a number of 32 bits.
    requires few { length words.now < MOST_PLACES }
    ensures { result
        ≡ flags_with_options_before_applet (options_of site.now.applet) no_flags 1 (take
        (site.now.read - 1) words.now) }
{
    let mut flags = Flags::none();
    for i in 0..site.read - 1 {
        let word = words.word(i);
        if is_double_dash(word) {
            return Ok(flags);
        }
        // The word must be an option of this applet that takes no value.
        match flags_with_option_word_if_one_command_kind(flags, option_of_word(site.applet, word)) {
            Some(more) => flags = more,
            None => return Err(place_after_word(i)),
        }
    }
    Ok(flags)
}

// ---- after the applet

/// The effect of the options that are read.
#[derive(Drop)]
pub(crate) struct OptionState {
    /// The flags that are read, those before the applet among them.
    pub flags: Flags,
    /// The values of options that are read.
    pub values: Values,
    /// The rule of the option whose value must be the next word, if there is such an option.
    pub awaiting: Option<ValueRule>,
}

impl OptionState {
    // The state after the applet: the flags before it, and no values.
    fn new(alloc: Global, flags: Flags) -> OptionState
        ensures { result ≡ option_state_at_start flags }
    {
        OptionState {
            flags,
            values: Values::new(alloc),
            awaiting: None,
        }
    }

    // Whether a word is read as an option or as a value: it is an option, or an option awaits its
    // value.
    fn expects(&self, word: &[u8]) -> bool
        ensures { result ≡ is_option_or_value self.now word.now }
    {
        self.awaiting.is_some() || (is_option_or_double_dash(word) && !is_double_dash(word))
    }

    // Reads the word at a place: the awaited value, or an option. Returns false if the word cannot
    // be read, and then nothing changes.
    fn read_word(&mut self, applet: Applet, place: u32, word: &[u8]) -> Result<bool, AllocError>
        requires { IsTrue (is_option_or_value self.old word.now) }
        ensures { IfOk result (λ good. IsReadingStep good self.old self.new
            (with_option_or_value_word
            (options_of applet) self.old place word.now)) }
    {
        match self.awaiting {
            Some(rule) => self.read_value(place, word, rule),
            None => self.read_option(applet, place, word),
        }
    }

    /// Whether the option that an applet requires was given; true if it requires none.
    pub(crate) fn has_needed(&self, applet: Applet) -> bool
        ensures { result ≡ not (is_required_value_missing
            (required_option_letter applet) self.now.values) }
    {
        match applet.required_option_letter() {
            Some(letter) => self.values.is_given(letter),
            None => true,
        }
    }

    // Reads the option that the word at a place is. Returns false if it cannot be read, and then
    // nothing changes.
    fn read_option(&mut self, applet: Applet, place: u32, word: &[u8]) -> Result<bool, AllocError>
        requires { IsTrue (is_option_or_double_dash word.now) }
        ensures { IfOk result (λ good. IsReadingStep good self.old self.new (with_option_word
            (options_of applet) self.old place word.now)) }
    {
        match option_of_word(applet, option_word_without_value(word)) {
            Some(option) => self.read_meaning(
                place,
                value_in_long_or_short_option_word(word),
                option.meaning,
            ),
            None => Ok(false),
        }
    }

    // Reads an option with this meaning, whose word holds the value `held` or none. Returns false
    // if it may not be given so, and then nothing changes.
    fn read_meaning(
        &mut self,
        place: u32,
        held: Option<&[u8]>,
        meaning: Meaning,
    ) -> Result<bool, AllocError>
        ensures { IfOk result (λ good. IsReadingStep good self.old self.new
            (state_with_meaning self.old place (option_map
            (λ text. text.now) held.entry) meaning)) }
    {
        match meaning {
            Meaning::Value(rule) => self.read_rule(place, held, rule),
            // A flag takes no value.
            Meaning::Flag(_) | Meaning::Kind(_) if held.is_some() => Ok(false),
            Meaning::Flag(_) | Meaning::Kind(_) => Ok(self.read_flag(meaning)),
        }
    }

    // Reads an option without a value. Returns false, and changes nothing, if it selects a kind of
    // the command and an earlier option has selected another kind.
    fn read_flag(&mut self, meaning: Meaning) -> bool
        ensures { IsReadingStep result self.old self.new (with_flags_if_some self.old
            (flags_with_meaning_if_one_command_kind self.old.flags meaning)) }
    {
        match meaning.with(self.flags) {
            Some(flags) => {
                self.flags = flags;
                true
            }
            None => false,
        }
    }

    // Reads an option that has values, whose word holds the value `held` or none. Returns false,
    // and changes nothing, if it may not be given again, or does not have that value.
    fn read_rule(
        &mut self,
        place: u32,
        held: Option<&[u8]>,
        rule: ValueRule,
    ) -> Result<bool, AllocError>
        ensures { IfOk result (λ good. IsReadingStep good self.old self.new
            (with_value_option self.old place (option_map (λ text. text.now) held.entry) rule)) }
    {
        if self.values.are_spent(rule) {
            return Ok(false);
        }
        match held {
            Some(text) => self.read_value(place, text, rule),
            None => {
                // The next word must be the value.
                self.awaiting = Some(rule);
                Ok(true)
            }
        }
    }

    // Reads a text as a value of the option with this rule. Returns false, and changes nothing, if
    // it is not of the right kind, or an earlier value excludes it.
    fn read_value(&mut self, place: u32, text: &[u8], rule: ValueRule) -> Result<bool, AllocError>
        ensures { IfOk result (λ good. IsReadingStep good self.old self.new
            (with_option_value self.old place text.now rule)) }
    {
        if !rule.kind.has(text) {
            return Ok(false);
        }
        // For example, a script of this type was given before.
        if self.values.exclude(rule, text) {
            return Ok(false);
        }
        self.values.push(place, rule.letter, text)?;
        self.awaiting = None;
        Ok(true)
    }
}

/// The result of reading the words after the applet.
#[derive(Drop)]
pub(crate) struct Reading {
    /// The effect of the options, including those before the applet.
    pub state: OptionState,
    /// The operands that were read.
    pub operands: Operands,
    /// The place of the word that cannot be read, or of the value that is missing after the last
    /// word. Nothing was read after it.
    pub unread: Option<u32>,
}

impl Reading {
    // The reading if all words were read.
    fn whole(state: OptionState, operands: Operands) -> Reading
        ensures { result ≡ words_reading_from_parts state operands None }
    {
        Reading {
            state,
            operands,
            unread: None,
        }
    }

    // The reading that ends at a place, because the word there cannot be read, or is missing.
    fn up_to(place: u32, state: OptionState, operands: Operands) -> Reading
        ensures { result ≡ words_reading_from_parts state operands (Some place) }
    {
        Reading {
            state,
            operands,
            unread: Some(place),
        }
    }

    // The reading if the words end at a place: an awaited value is missing there.
    fn ended(place: u32, state: OptionState, operands: Operands) -> Reading
        ensures { result ≡ words_reading_from_parts state operands
            (reading_at_end_of_words state place).unread }
    {
        match state.awaiting {
            Some(_) => Reading::up_to(place, state, operands),
            None => Reading::whole(state, operands),
        }
    }
}

/// Reads the words after the applet, up to the first that cannot be read.
#[tactic(auto, unfolding(crate::specs::Grammar::reading_of_rest_of_command_words))]
pub(crate) fn read_after_applet(
    alloc: Global,
    words: &Words,
    start: &Start,
) -> Result<Reading, AllocError>
    requires { start.now.read ≤ length words.now }
    ensures { IfOk result (λ reading. reading
        ≡ reading_of_rest_of_command_words start.now words.now) }
{
    if !start.ended {
        return read_options(alloc, words, start);
    }
    let mut operands = Operands::new(alloc);
    add_operands(&mut operands, words, start.read)?;
    Ok(Reading::whole(OptionState::new(alloc, start.flags), operands))
}

// Reads options, their values and operands after the applet, if no `--` precedes it. The reading
// ends at the first word that cannot be read.
fn read_options(alloc: Global, words: &Words, start: &Start) -> Result<Reading, AllocError>
    requires { start.now.read ≤ length words.now }
    ensures { IfOk result (λ reading.
        reading ≡ reading_of_words_from_place (options_of start.now.applet)
        (option_state_at_start start.now.flags)
        (start.now.read + 1) (drop start.now.read words.now)) }
{
    let mut state = OptionState::new(alloc, start.flags);
    let mut operands = Operands::new(alloc);
    for i in start.read..words.len() {
        let word = words.word(i);
        // The word is an option, or the value that an option awaits.
        if state.expects(word) {
            if state.read_word(start.applet, place_after_word(i), word)? {
                continue;
            }
            return Ok(Reading::up_to(place_after_word(i), state, operands));
        }
        if is_double_dash(word) {
            // All words after it are operands.
            add_operands(&mut operands, words, i + 1)?;
            return Ok(Reading::whole(state, operands));
        }
        // Each other word is an operand.
        operands.push(place_after_word(i), word)?;
    }
    Ok(Reading::ended(place_after_word(words.len()), state, operands))
}

// Adds each word after the first `before` words as an operand.
fn add_operands(operands: &mut Operands, words: &Words, before: usize) -> Result<(), AllocError>
    requires { before ≤ length words.now }
    ensures { OnOk result (operands.new ≡ operands.old
        ++ words_as_operands_from_place (before + 1) (drop before words.now)) }
{
    for i in before..words.len() {
        operands.push(place_after_word(i), words.word(i))?;
    }
    Ok(())
}
