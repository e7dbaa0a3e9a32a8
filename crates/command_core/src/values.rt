//! Options with values: which values each may have, and those that a command was given. The rules
//! are in `docs/commands.md`, "Words", the table of options, the rows with a value.
ghost use Rattle.std.specs.Prelude.{◌≡◌, ◌<◌, ◌==◌, ◌++◌, ◌∷◌, [], IfOk, IfSome, IsTrue, OnErr, OnOk, Some, length, not, slice_get};
ghost use Rattle.std.specs.Option.{option_map};
ghost use Rattle.command_core.specs.Files.{is_file_argument, without_one_leading_dot_slash};
ghost use Rattle.command_core.specs.Named.{file_name, file_in, file_part_of_value};
ghost use Rattle.command_core.specs.Values.{excludes, is_excluded_by_earlier_value, is_given, is_single_and_given, is_value_of_kind, script_file, script_type, option_value_from_place_letter_and_text, first_value_with_letter};
ghost use Rattle.command_core.specs.declared.values.OptionValue.{OptionValue};

use crate::texts::{
    file_name, is_file_argument, is_file_argument_within_output_length, is_script_argument,
    script_file, script_type,
};
use base_core::{Name, Text};
use std::alloc::{AllocError, Global};
use std::marker::Model;

/// The letter of `--compression`.
pub const COMPRESSION: u8 = b'c';
/// The letter of `--description`.
pub const DESCRIPTION: u8 = b'd';
/// The letter of `--files`.
pub const FILES: u8 = b'F';
/// The letter of `--info`.
pub const INFO: u8 = b'I';
/// The letter of `--output`.
pub const OUTPUT: u8 = b'o';
/// The letter of `--script`.
pub const SCRIPT: u8 = b's';
/// The letter of `--trigger`.
pub const TRIGGER: u8 = b't';

/// The rule of an option with values: which values it may have, and whether only once.
#[derive(Clone, Copy)]
pub struct ValueRule {
    /// The letter of the option's short word, under which its values are stored.
    pub letter: u8,
    /// Whether the option may be given only once.
    pub single: bool,
    /// Which texts may be its value.
    pub kind: ValueKind,
}

/// Which texts may be a value of an option.
#[derive(Clone, Copy)]
pub enum ValueKind {
    /// Any text.
    Any,
    /// A text of one or more bytes.
    Nonempty,
    /// A file or a folder, as a path below the root.
    File,
    /// A file to be written: its path has at most 1,016 bytes, so that a scratch name beside it is
    /// a path too.
    Output,
    /// The word `none`: the output is not compressed.
    Uncompressed,
    /// TYPE:FILE, with the type of a package's script. No type may be given twice.
    Script,
}

impl ValueKind {
    /// Whether a text is a value of this kind.
    pub fn has(self, text: &[u8]) -> bool
        ensures { result ≡ is_value_of_kind self text.now }
    {
        match self {
            ValueKind::Any => true,
            ValueKind::Nonempty => !text.is_empty(),
            ValueKind::File => is_file_argument(text),
            ValueKind::Output => is_file_argument_within_output_length(text),
            ValueKind::Uncompressed => text == b"none".as_slice(),
            ValueKind::Script => is_script_argument(text),
        }
    }

    /// Whether two values of one option, whose kind this is, exclude each other. Two scripts of one
    /// type do, and no other values.
    pub fn excludes(self, a: &[u8], b: &[u8]) -> bool
        ensures { result ≡ excludes self a.now b.now }
    {
        match self {
            ValueKind::Script => script_type(a) == script_type(b),
            _ => false,
        }
    }
}

/// A value that an option was given.
#[derive(Drop)]
pub struct OptionValue {
    /// The place among the words, counted from 1, of the word that holds the value.
    pub place: u32,
    /// The letter of the option's short form.
    pub letter: u8,
    /// The value as given.
    pub text: Text,
}

impl OptionValue {
    /// The type of a script: of a value TYPE:FILE, as `--script` has, the part before the first
    /// `:`.
    pub fn script_type(&self) -> &[u8]
        ensures { result.now ≡ script_type self.now.text }
    {
        script_type(self.text.as_bytes())
    }
}

// A value, with the name of the file in it if there is one.
#[derive(Drop)]
struct ValueEntry {
    /// The value that the option was given.
    value: OptionValue,
    // The name of the file in the value. It is read when the value is added, so that lending it
    // allocates no memory.
    file: Option<Name>,
}

/// The values that the options of a command were given, in the order given.
#[derive(Drop)]
pub struct Values {
    /// The allocator.
    alloc: Global,
    /// The values, each with the name of the file in it, if there is one.
    entries: Vec<ValueEntry>,
}

impl Model for Values {
    ghost use Rattle.std.specs.Prelude.{◌≡◌, List, map};
    ghost use Rattle.command_core.specs.Named.{file_in};
    ghost use Rattle.command_core.specs.declared.values.OptionValue.{OptionValue};
    ghost use Rattle.command_core.specs.declared.values.ValueEntry.{ValueEntry};

    ghost Value = { List OptionValue };

    // The values, without the names of files.
    ghost view = { λ values. map (λ (e : ValueEntry). e.value) values.entries.items };

    // The name stored beside each value is that of the file in the value.
    ghost invariant = { λ values.
        map (λ (e : ValueEntry). e.file) values.entries.items
        ≡ map (λ (e : ValueEntry). file_in e.value) values.entries.items };
}

impl Values {
    /// No values.
    pub fn new(alloc: Global) -> Values
        ensures { result ≡ [] }
    {
        Values {
            alloc,
            entries: Vec::new(alloc),
        }
    }

    /// Adds a value of the option with a letter, which is in the word at a place. A call that fails
    /// changes nothing.
    pub fn push(&mut self, place: u32, letter: u8, text: &[u8]) -> Result<(), AllocError>
        // The value is added at the end.
        ensures ok { OnOk result (self.new ≡ self.old
            ++ option_value_from_place_letter_and_text place letter text.now ∷ []) }
        ensures err { OnErr result (self.new ≡ self.old) }
    {
        let file = read_value_file(self.alloc, letter, text)?;
        let text = Text::of(self.alloc, text)?;
        self.entries.push(ValueEntry {
            value: OptionValue {
                place,
                letter,
                text,
            },
            file,
        })?;
        Ok(())
    }

    /// Whether the option with a letter was given a value.
    pub fn is_given(&self, letter: u8) -> bool
        ensures { result ≡ is_given letter self.now }
    {
        self.entries
            .iter()
            .any(|entry| entry.value.letter == letter)
    }

    /// Whether the option with this rule may not be given again: it may be given once, and has a
    /// value.
    pub fn are_spent(&self, rule: ValueRule) -> bool
        ensures { result ≡ is_single_and_given rule self.now }
    {
        rule.single && self.is_given(rule.letter)
    }

    /// Whether a value in this list is of the option with this rule, and excludes `text` as a
    /// further value of it.
    pub fn exclude(&self, rule: ValueRule, text: &[u8]) -> bool
        ensures { result ≡ is_excluded_by_earlier_value rule text.now self.now }
    {
        self.entries.iter().any(|entry| entry.value.letter == rule.letter
            && rule.kind.excludes(entry.value.text.as_bytes(), text))
    }

    /// How many values there are.
    pub fn len(&self) -> usize
        ensures { result ≡ length self.now }
    {
        self.entries.len()
    }

    /// Whether there is no value.
    pub fn is_empty(&self) -> bool
        ensures { result ≡ (length self.now == 0) }
    {
        self.entries.is_empty()
    }

    /// The value with this index in the list, counted from 0.
    pub fn get(&self, i: usize) -> &OptionValue
        requires { i < length self.now }
        ensures { slice_get self.now i ≡ Some result.now }
    {
        &self.entries[i].value
    }

    /// The first value that the option with a letter was given, if there is one.
    pub fn first(&self, letter: u8) -> Option<&OptionValue>
        ensures { option_map (λ value. value.now) result
            ≡ first_value_with_letter letter self.entry.now }
    {
        match self.first_entry(letter) {
            Some(entry) => Some(&entry.value),
            None => None,
        }
    }

    /// The name of the first file that the option with a letter was given, without one leading
    /// `./`, if there is one. The option's values are files.
    pub fn first_file(&self, letter: u8) -> Option<&Name>
        // The option is not `--script`.
        requires letter { IsTrue (not (letter == SCRIPT)) }
        // If the option has a value, its first value is a file.
        requires file { IfSome (first_value_with_letter letter self.now)
            (λ value. IsTrue (is_file_argument value.text)) }
        // The name in the first value, without one leading `./`; None if there is no value.
        ensures { option_map (λ name. name.now) result
            ≡ option_map (λ value. without_one_leading_dot_slash value.text)
            (first_value_with_letter letter self.entry.now) }
    {
        match self.first_entry(letter) {
            Some(entry) => entry.file.as_ref(),
            None => None,
        }
    }

    /// The name of the file that `--script` was given by the value with this index, without one
    /// leading `./`.
    pub fn script_file(&self, i: usize) -> &Name
        // The list has a value with this index.
        requires here { i < length self.now }
        // The value is one of `--script`, and has a file.
        requires script { IfSome (slice_get self.now i)
            (λ value. value.letter ≡ SCRIPT × IsTrue (is_file_argument (script_file value.text))) }
        ensures { option_map (λ value. without_one_leading_dot_slash (script_file value.text))
            (slice_get self.now i) ≡ Some result.now }
    {
        match &self.entries[i].file {
            Some(file) => file,
            // The value is of a script and has a file, so that its name was read.
            None => unreachable!(),
        }
    }

    // The first value that the option with a letter was given, and the file in it.
    fn first_entry(&self, letter: u8) -> Option<&ValueEntry>
        ensures value { option_map (λ entry. entry.now.value) result
            ≡ first_value_with_letter letter self.entry.now }
        // The stored name is that of the file in this value.
        ensures file { IfSome result (λ entry. entry.now.file ≡ file_in entry.now.value) }
    {
        self.entries
            .iter()
            .find(|entry| entry.value.letter == letter)
    }
}

// The name of the file in a value of the option with a letter, if there is one. In a value of
// `--script`, TYPE:FILE, the file is after the first `:`.
fn read_value_file(alloc: Global, letter: u8, text: &[u8]) -> Result<Option<Name>, AllocError>
    ensures { IfOk result (λ file. file ≡ file_name (file_part_of_value letter text.now)) }
{
    if letter == SCRIPT {
        return file_name(alloc, script_file(text));
    }
    file_name(alloc, text)
}
