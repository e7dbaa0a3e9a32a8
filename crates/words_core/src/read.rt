//! Reads the command of a command line, or finds the first place that offends. The rules are in
//! `docs/commands.md`, "Words" and "Help".
ghost use Rattle.std.specs.Prelude.{◌≡◌, IfErr, IfNone, IfOk, IsTrue, MatchOption, OnErr};
ghost use Rattle.std.specs.Result.{is_ok};
ghost use Rattle.command_core.specs.Sound.{is_valid_command};
ghost use Rattle.words_core.specs.Faults.{HasStartIfOutOfMemory, IsWordsFault};
ghost use Rattle.words_core.specs.Grammar.{applet_site, command_with_help_or_version_applet, command_from_end_place_and_reading, command_of, command_of_reading_with_end_place, spelled_command, start_of_command_line, help_topic_operands};
ghost use Rattle.words_core.specs.Steps.{IsSoundReading};

use crate::next::help_or_version_option_at;
use crate::options::applet_word;
use crate::reading::{Reading, find_applet, read_after_applet, read_start};
use crate::word::place_after_word;
use base_core::Words;
use command_core::{Applet, Command, Flags, Operands, Values};
use std::alloc::{AllocError, Global};

/// Why there is no command.
#[derive(Clone, Copy, Debug, PartialEq, Eq)]
pub enum WordsFault {
    /// The place of the first wrong word, counted from 1, or the place after the last one if a word
    /// is missing.
    Usage { place: u32 },
    /// Out of memory.
    Memory,
}

impl From<AllocError> for WordsFault {
    ghost use Rattle.std.specs.Prelude.{◌≡◌};
    ghost use Rattle.words_core.specs.declared.read.WordsFault.TheVariants.{Memory};

    ghost from_gives = { λ _ fault. fault ≡ Memory };

    /// Out of memory, as the reason that there is no command.
    fn from(_: AllocError) -> WordsFault {
        WordsFault::Memory
    }
}

/// The command of the words of a command line (apk(8)).
///
/// # Errors
///
/// `Usage` is returned exactly if the words are no command. Its place is that of the first wrong
/// word, or the place after the last word if a word is missing. `Memory` is returned only if an
/// applet was found, with its own options before it.
#[tactic(auto, using(crate::proofs::AskedLaws::line_is))]
pub fn read_words(alloc: Global, words: &Words) -> Result<Command, WordsFault>
    ensures ok { IfOk result (λ command. command_of words.now ≡ Ok command) }
    ensures usage { IfErr result (λ fault. IsWordsFault fault (command_of words.now)) }
    // Memory ran out only if an applet was found, with its own options before it.
    ensures memory { IfErr result (λ fault. HasStartIfOutOfMemory fault
        (start_of_command_line words.now)) }
{
    match read_line(alloc, words) {
        Ok(command) => Ok(command),
        Err(WordsFault::Usage { place }) => read_asked(alloc, words, place),
        Err(WordsFault::Memory) => Err(WordsFault::Memory),
    }
}

// The command that the first wrong word asks for, as `--help` does; otherwise the usage error at
// this place, which is that of the first wrong word.
#[tactic(auto, unfolding(crate::specs::Grammar::command_of))]
fn read_asked(alloc: Global, words: &Words, place: u32) -> Result<Command, WordsFault>
    requires { spelled_command words.now ≡ Err place }
    ensures ok { IfOk result (λ command. command_of words.now ≡ Ok command) }
    ensures usage { IfErr result (λ fault. IsWordsFault fault (command_of words.now)) }
    // Memory ran out only if an applet was found, with its own options before it.
    ensures memory { IfErr result (λ fault. HasStartIfOutOfMemory fault
        (start_of_command_line words.now)) }
{
    let Some(applet) = help_or_version_option_at(words, place) else {
        return Err(WordsFault::Usage { place });
    };
    match command_with_help_or_version_applet(alloc, words, applet) {
        Ok(command) => Ok(command),
        Err(_) => Err(WordsFault::Memory),
    }
}

// The command `Help` or `ProgramVersion` that words ask for: without flags and values. Its operands
// are those of `topic`.
fn command_with_help_or_version_applet(
    alloc: Global,
    words: &Words,
    applet: Applet,
) -> Result<Command, AllocError>
    requires { IsTrue (is_valid_command (command_with_help_or_version_applet words.now applet)) }
    ensures ok { IfOk result (λ command. command
        ≡ command_with_help_or_version_applet words.now applet) }
    // Memory runs out only for the operand of `Help`, and so only if an applet was found.
    ensures memory { OnErr result (IsTrue (is_ok (applet_site 1 words.now))) }
{
    let operands = match applet {
        Applet::Help => topic(alloc, words)?,
        _ => Operands::new(alloc),
    };
    Ok(Command::of(
        applet,
        Flags::none(),
        operands,
        Values::new(alloc),
        place_after_word(words.len()),
    ))
}

// The operands of `Help`: the word of the applet that the words name, if they name one.
fn topic(alloc: Global, words: &Words) -> Result<Operands, AllocError>
    ensures ok { IfOk result (λ operands. operands
        ≡ help_topic_operands (applet_site 1 words.now)) }
    ensures memory { OnErr result (IsTrue (is_ok (applet_site 1 words.now))) }
{
    let mut operands = Operands::new(alloc);
    let Ok(site) = find_applet(words) else {
        return Ok(operands);
    };
    operands.push(place_after_word(site.read - 1), applet_word(site.applet))?;
    Ok(operands)
}

// The command that the words spell, if `--help` and `--version` are no options.
#[tactic(auto, unfolding(crate::specs::Grammar::spelled_command))]
fn read_line(alloc: Global, words: &Words) -> Result<Command, WordsFault>
    ensures ok { IfOk result (λ command. spelled_command words.now ≡ Ok command) }
    ensures usage { IfErr result (λ fault. IsWordsFault fault (spelled_command words.now)) }
    // Memory ran out only if an applet was found, with its own options before it.
    ensures memory { IfErr result (λ fault. HasStartIfOutOfMemory fault
        (start_of_command_line words.now)) }
{
    let start = match read_start(words) {
        Ok(start) => start,
        Err(place) => return Err(WordsFault::Usage { place }),
    };
    let reading = read_after_applet(alloc, words, &start)?;
    judge(start.applet, reading, place_after_word(words.len()))
}

// The command that was read, or the first wrong place. `behind` is the place after the last word.
fn judge(applet: Applet, reading: Reading, behind: u32) -> Result<Command, WordsFault>
    requires { IsSoundReading applet reading }
    ensures ok { IfOk result (λ command. command_of_reading_with_end_place behind applet reading
        ≡ Ok command) }
    ensures usage { IfErr result (λ fault. IsWordsFault fault
        (command_of_reading_with_end_place behind applet reading)) }
{
    if let Some(place) = first_wrong_place(applet, &reading, behind) {
        return Err(WordsFault::Usage { place });
    }
    Ok(Command::of(
        applet,
        reading.state.flags,
        reading.operands,
        reading.state.values,
        behind,
    ))
}

// The first wrong place: an operand that is not taken, the word that cannot be read, or the place
// after the last word (`behind`) if a word is missing. None if a command was read.
#[tactic(auto, unfolding(crate::specs::Grammar::command_of_reading_with_end_place))]
fn first_wrong_place(applet: Applet, reading: &Reading, behind: u32) -> Option<u32>
    requires { IsSoundReading applet reading.now }
    ensures place { MatchOption result
        (command_of_reading_with_end_place behind applet reading.now
        ≡ Ok (command_from_end_place_and_reading behind applet reading.now))
        (λ place. command_of_reading_with_end_place behind applet reading.now ≡ Err place) }
    ensures valid { IfNone result (IsTrue (is_valid_command
        (command_from_end_place_and_reading behind applet reading.now))) }
{
    // Without the flag that selects its kind a command has no rule for its operands.
    let Some(rule) = applet.operands(reading.state.flags) else {
        return Some(reading.unread.unwrap_or(behind));
    };
    // The operands that were read precede the word that could not be read.
    if let Some(place) = rule.place_of_first_refused_operand(&reading.operands) {
        return Some(place);
    }
    if let Some(place) = reading.unread {
        return Some(place);
    }
    // A missing word is refused after the last one, and so only if no other word is wrong.
    if reading.operands.len() < rule.least || !reading.state.has_needed(applet) {
        return Some(behind);
    }
    None
}
