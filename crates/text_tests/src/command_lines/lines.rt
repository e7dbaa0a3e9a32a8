//! Command lines: which are a command, the parts of such a command, and the first wrong word of any
//! other line. The rules are in `docs/commands.md`, "Words". The position of a word is counted from
//! 1.
use crate::add_made;
use crate::command_lines::{Question, add_written};
use base_core::Words;
use command_core::{Applet, Command, Flag, OperandKind, ValueKind};
use row_lines::{Answer, number_of, value_named, word_at};
use std::alloc::{AllocError, Global};
use tree_memory::MemorySink;
use words_core::{WordsFault, explain_usage, help, read_words, version_line};

/// The most words that the command line of a row may have.
const MOST_WORDS: usize = 100_000;

/// Answers a question about a command line: `line`, `many`, `asked`, `command`, `values` or
/// `letters`. If the words are no command, `line` and `many` answer which word is wrong, and the
/// other questions `none`.
pub(crate) fn add_line(alloc: Global, question: Question, line: &Words, answer: &mut Answer) {
    match read_words(alloc, line) {
        Ok(command) => add_parts(alloc, question, &command, answer),
        Err(WordsFault::Usage { place }) => match question {
            Question::Line | Question::RepeatedWord => add_place(alloc, line, place, answer),
            _ => answer.push(b"none"),
        },
        Err(WordsFault::Memory) => answer.add_text(Err(AllocError)),
    }
}

/// Adds what a question asks of a command, which is no wrong line.
fn add_parts(alloc: Global, question: Question, command: &Command, answer: &mut Answer) {
    match question {
        Question::Asked => add_asked(alloc, command, answer),
        Question::Command => add_command(command, answer),
        Question::Values => add_values(command, answer),
        Question::Letters => add_letters(command, answer),
        Question::RepeatedWord => {
            answer.push(b"0");
            add_next(answer, command.operands().len() as u128);
        }
        _ => answer.push(b"0"),
    }
}

/// Adds the position of the first wrong word of a command line, and the error line with the reason.
fn add_place(alloc: Global, line: &Words, place: u32, answer: &mut Answer) {
    answer.add_number(u128::from(place));
    answer.add_word(b"");
    let mut sink = MemorySink::new(alloc);
    let outcome = explain_usage(line, place, &mut sink);
    add_written(&sink, outcome, answer)
}

/// Answers `asked WORD ..`: adds what is printed if the command asks for help or for the version of
/// the program, and else `none`.
fn add_asked(alloc: Global, command: &Command, answer: &mut Answer) {
    match command.applet() {
        Applet::Help => add_made(help(alloc, command.operands()), answer),
        Applet::ProgramVersion => add_made(version_line(alloc), answer),
        _ => answer.push(b"none"),
    }
}

/// The command line of `N WORD WORD ..`: the words after N, of which the second is repeated N
/// times. The line has no more than `MOST_WORDS` words.
pub(crate) fn repeated_words(alloc: Global, words: &Words) -> Result<Words, AllocError> {
    // N; it is taken as 0 if the word is no number.
    let copies = number_of(word_at(words, 0)).unwrap_or(0);
    let copies = copies.min(MOST_WORDS as u128);
    let mut line = Words::new(alloc);
    for i in 1..words.len() {
        // N has the index 0, so the second word after it has the index 2.
        let times = if i == 2 { copies } else { 1 };
        for _ in 0..times {
            if line.len() < MOST_WORDS {
                line.push(words.word(i))?;
            }
        }
    }
    Ok(line)
}

/// The applets, and the words that name them.
#[rattlefmt::skip]
const APPLETS: [(Applet, &[u8]); 19] = [
    (Applet::Add, b"add"),
    (Applet::Del, b"del"),
    (Applet::Upgrade, b"upgrade"),
    (Applet::Fix, b"fix"),
    (Applet::Info, b"info"),
    (Applet::Verify, b"verify"),
    (Applet::Adbdump, b"adbdump"),
    (Applet::Mkpkg, b"mkpkg"),
    (Applet::Mkndx, b"mkndx"),
    (Applet::Version, b"version"),
    (Applet::Demo, b"demo"),
    (Applet::Adbgen, b"adbgen"),
    (Applet::Audit, b"audit"),
    (Applet::Manifest, b"manifest"),
    (Applet::List, b"list"),
    (Applet::Search, b"search"),
    (Applet::Policy, b"policy"),
    (Applet::Help, b"--help"),
    (Applet::ProgramVersion, b"--version"),
];

/// The options without a value (flags), and their words.
#[rattlefmt::skip]
const FLAGS: [(Flag, &[u8]); 11] = [
    (Flag::AllowUntrusted, b"--allow-untrusted"),
    (Flag::NoScripts, b"--no-scripts"),
    (Flag::Initdb, b"--initdb"),
    (Flag::Simulate, b"--simulate"),
    (Flag::Purge, b"--purge"),
    (Flag::Installed, b"--installed"),
    (Flag::Contents, b"--contents"),
    (Flag::Depends, b"--depends"),
    (Flag::WhoOwns, b"--who-owns"),
    (Flag::Test, b"--test"),
    (Flag::Check, b"--check"),
];

/// Answers `command WORD ..`: adds the applet of the command, its options without a value, the
/// position after its last word, and how many operands it has. Then adds the position and the text
/// of each of the first 100 operands.
fn add_command(command: &Command, answer: &mut Answer) {
    for (applet, word) in &APPLETS {
        if *applet == command.applet() {
            answer.add_word(word);
        }
    }
    for (flag, word) in &FLAGS {
        if command.flags().has(*flag) {
            answer.add_word(word);
        }
    }
    // The position after the last word.
    add_next(answer, u128::from(command.behind()));
    let operands = command.operands();
    add_next(answer, operands.len() as u128);
    for i in 0..operands.len().min(100) {
        let operand = operands.get(i);
        add_next(answer, u128::from(operand.place));
        answer.add_word(operand.text.as_bytes());
    }
}

/// Adds a space, and a number in decimal.
fn add_next(answer: &mut Answer, number: u128) {
    answer.add_word(b"");
    answer.add_number(number)
}

/// Answers `values WORD ..`: adds of each value of an option its position, the option's letter, for
/// `-s` the script's type, and its text.
fn add_values(command: &Command, answer: &mut Answer) {
    let values = command.values();
    for i in 0..values.len() {
        let value = values.get(i);
        add_next(answer, u128::from(value.place));
        answer.add_word(&[value.letter]);
        if value.letter == b's' {
            answer.add_word(value.script_type());
        }
        answer.add_word(value.text.as_bytes());
    }
}

/// Answers `letters WORD ..`: adds each letter of an option for which a value is given, and the
/// position of the first such value.
fn add_letters(command: &Command, answer: &mut Answer) {
    // The letters of all options that take a value, in byte order.
    for letter in b"FIcdost" {
        if let Some(value) = command.values().first(*letter) {
            answer.add_word(&[*letter]);
            add_next(answer, u128::from(value.place));
        }
    }
}

// The text by which a row names each kind of an option's value.
#[rattlefmt::skip]
const VALUE_KINDS: [(&[u8], ValueKind); 6] = [
    (b"any", ValueKind::Any),
    (b"nonempty", ValueKind::Nonempty),
    (b"file", ValueKind::File),
    (b"output", ValueKind::Output),
    (b"uncompressed", ValueKind::Uncompressed),
    (b"script", ValueKind::Script),
];

/// Whether TEXT of `KIND TEXT` is a value of this kind; false if no kind has this name.
pub(crate) fn is_value(words: &Words) -> bool {
    match value_named(&VALUE_KINDS, word_at(words, 0)) {
        Some(kind) => kind.has(word_at(words, 1)),
        None => false,
    }
}

// The text by which a row names each kind of operand.
#[rattlefmt::skip]
const OPERAND_KINDS: [(&[u8], OperandKind); 8] = [
    (b"file", OperandKind::File),
    (b"any", OperandKind::Any),
    (b"dependency", OperandKind::Dependency),
    (b"dependency-name", OperandKind::DependencyName),
    (b"package-name", OperandKind::PackageName),
    (b"path", OperandKind::Path),
    (b"number", OperandKind::Number),
    (b"pattern", OperandKind::Pattern),
];

/// Whether TEXT of `KIND TEXT` is an operand of this kind; false if no kind has this name.
pub(crate) fn is_operand(words: &Words) -> bool {
    match value_named(&OPERAND_KINDS, word_at(words, 0)) {
        Some(kind) => kind.has(word_at(words, 1)),
        None => false,
    }
}
