//! Operands of a command line: the rule that says which operands an applet takes, the list of those
//! that a command has, and laws on the operands and option values of every valid command. The rules
//! are in `docs/commands.md`, "Words", and for each applet in the section with its name.

ghost use Rattle.std.specs.Prelude.{◌≡◌, ◌<◌, ◌==◌, ◌++◌, ◌∷◌, [], IfOk, IsTrue, None, OnErr, OnOk, Some, length, slice_get, ℕ};
ghost use Rattle.std.specs.Option.{option_map};
ghost use Rattle.command_core.specs.Files.{without_one_leading_dot_slash, is_file_argument, is_file_argument_within_output_length};
ghost use Rattle.command_core.specs.Named.{file_name, are_files, operand_file};
ghost use Rattle.command_core.specs.Operands.{at_least, at_most, exactly, place_of_first_refused_operand, allows_one_more_operand, is_operand_of_kind, operand_at, takes};
ghost use Rattle.command_core.specs.Applets.{required_option_letter, operand_rule_if_needed_kind_flag_given};
ghost use Rattle.command_core.specs.Sound.{value_rules, IsValidCommand, are_allowed_operands, are_allowed_values, is_allowed_value, value_rule_of_letter};
ghost use Rattle.command_core.specs.Command.{CommandLine};
ghost use Rattle.command_core.specs.Values.{first_value_with_letter, is_given, is_script_argument};
ghost use Rattle.command_core.specs.declared.operands.OperandRule.{OperandRule};
ghost use Rattle.command_core.specs.declared.values.OptionValue.{OptionValue};

use crate::texts::{
    file_name, is_demo_number, is_file_argument, is_name_with_optional_leading_slash, is_pattern,
};
use crate::values::{FILES, OUTPUT, SCRIPT};
use base_core::{Name, Text};
use dep_core::{is_dependency_name_by_bytes_and_length, is_package_name, read_dep};
use std::alloc::{AllocError, Global};
use std::marker::Model;

/// The kind of text that an operand has to be.
#[derive(Clone, Copy)]
pub enum OperandKind {
    /// A file, as a path below the root, after one optional `./`.
    File,
    /// Any text.
    Any,
    /// The text of a dependency (apk-world(5)).
    Dependency,
    /// The name of a dependency.
    DependencyName,
    /// The name of a package.
    PackageName,
    /// A path below the root, after one optional `/`.
    Path,
    /// A decimal number from 1 to 20,000, without leading zeros.
    Number,
    /// A pattern: one byte or more, each a visible ASCII character (0x21 to 0x7e).
    Pattern,
}

impl OperandKind {
    /// Whether a text is an operand of this kind.
    pub fn has(self, text: &[u8]) -> bool
        ensures { result ≡ is_operand_of_kind self text.now }
    {
        match self {
            OperandKind::File => is_file_argument(text),
            OperandKind::Any => true,
            OperandKind::Dependency => read_dep(text).is_some(),
            OperandKind::DependencyName => is_dependency_name_by_bytes_and_length(text),
            OperandKind::PackageName => is_package_name(text),
            OperandKind::Path => is_name_with_optional_leading_slash(text),
            OperandKind::Number => is_demo_number(text),
            OperandKind::Pattern => is_pattern(text),
        }
    }
}

/// The rule of the operands of an applet: their kind, and how many there may be.
#[derive(Clone, Copy)]
pub struct OperandRule {
    /// The kind of text that each operand has to be.
    pub kind: OperandKind,
    /// The least number of operands.
    pub least: usize,
    /// The greatest number of operands; None if there is no limit.
    pub most: Option<usize>,
}

impl OperandRule {
    /// The rule that takes `least` operands of this kind, or more.
    pub fn at_least(least: usize, kind: OperandKind) -> OperandRule
        ensures { result ≡ at_least least kind }
    {
        OperandRule {
            kind,
            least,
            most: None,
        }
    }

    /// The rule that takes at most `most` operands of this kind.
    pub fn at_most(most: usize, kind: OperandKind) -> OperandRule
        ensures { result ≡ at_most most kind }
    {
        OperandRule {
            kind,
            least: 0,
            most: Some(most),
        }
    }

    /// The rule that takes exactly `count` operands of this kind.
    pub fn exactly(count: usize, kind: OperandKind) -> OperandRule
        ensures { result ≡ exactly count kind }
    {
        OperandRule {
            kind,
            least: count,
            most: Some(count),
        }
    }

    /// The place, counted from 1, of the first operand that the rule does not take: its text is not
    /// of the rule's kind, or too many operands precede it.
    pub fn place_of_first_refused_operand(&self, operands: &Operands) -> Option<u32>
        ensures { result ≡ place_of_first_refused_operand self.now 0 operands.now }
    {
        for i in 0..operands.len() {
            let operand = operands.get(i);
            if !self.takes(i, operand.text.as_bytes()) {
                return Some(operand.place);
            }
        }
        None
    }

    // Whether the rule takes a text as an operand, if `before` operands precede it.
    fn takes(&self, before: usize, text: &[u8]) -> bool
        ensures { result ≡ takes self.now before text.now }
    {
        if !self.allows_one_more_operand(before) {
            return false;
        }
        self.kind.has(text)
    }

    // Whether the rule allows one more operand after `before` operands.
    fn allows_one_more_operand(&self, before: usize) -> bool
        ensures { result ≡ allows_one_more_operand self.now.most before }
    {
        match self.most {
            Some(most) => before < most,
            None => true,
        }
    }
}

/// An argument of a command line that is an operand.
#[derive(Drop)]
pub struct Operand {
    /// The place of the argument in the command line, counted from 1.
    pub place: u32,
    /// The text of the argument, as given.
    pub text: Text,
}

// An operand, with the name of the file that its text is, if it is one.
#[derive(Drop)]
struct OperandEntry {
    /// The operand.
    operand: Operand,
    // The name of the file that the text names; None if the text is no valid name. It is made when
    // the operand is added, so that lending it allocates no memory.
    file: Option<Name>,
}

/// The operands of a command, in the order given.
#[derive(Drop)]
pub struct Operands {
    /// The allocator.
    alloc: Global,
    /// The operands, each with the name of its file, if it is one.
    entries: Vec<OperandEntry>,
}

impl Model for Operands {
    ghost use Rattle.std.specs.Prelude.{◌≡◌, List, map};
    ghost use Rattle.command_core.specs.Named.{file_name};
    ghost use Rattle.command_core.specs.declared.operands.Operand.{Operand};
    ghost use Rattle.command_core.specs.declared.operands.OperandEntry.{OperandEntry};

    ghost Value = { List Operand };

    // The operands, without the names of files.
    ghost view = { λ operands. map (λ (e : OperandEntry). e.operand) operands.entries.items };

    // The name stored beside each operand is that of the file that the operand's text names.
    ghost invariant = { λ operands.
        map (λ (e : OperandEntry). e.file) operands.entries.items
        ≡ map (λ (e : OperandEntry). file_name e.operand.text) operands.entries.items };
}

impl Operands {
    /// No operands.
    pub fn new(alloc: Global) -> Operands
        ensures { result ≡ [] }
    {
        Operands {
            alloc,
            entries: Vec::new(alloc),
        }
    }

    /// Adds the argument at a place of the command line as an operand. A call that fails changes
    /// nothing.
    pub fn push(&mut self, place: u32, word: &[u8]) -> Result<(), AllocError>
        // The operand is added at the end.
        ensures ok { OnOk result (self.new ≡ self.old ++ operand_at place word.now ∷ []) }
        ensures err { OnErr result (self.new ≡ self.old) }
    {
        let file = file_name(self.alloc, word)?;
        let text = Text::of(self.alloc, word)?;
        self.entries.push(OperandEntry {
            operand: Operand { place, text },
            file,
        })?;
        Ok(())
    }

    /// How many operands there are.
    pub fn len(&self) -> usize
        ensures { result ≡ length self.now }
    {
        self.entries.len()
    }

    /// Whether there is no operand.
    pub fn is_empty(&self) -> bool
        ensures { result ≡ (length self.now == 0) }
    {
        self.entries.is_empty()
    }

    /// The operand with this index in the list, counted from 0.
    pub fn get(&self, i: usize) -> &Operand
        requires { i < length self.now }
        ensures { slice_get self.now i ≡ Some result.now }
    {
        &self.entries[i].operand
    }

    /// The name of the file that the operand with this index names, without one leading `./`.
    pub fn file(&self, i: usize) -> &Name
        requires here { i < length self.now }
        // Each operand can name a file.
        requires files { IsTrue (are_files self.now) }
        ensures { option_map operand_file (slice_get self.now i) ≡ Some result.now }
    {
        match &self.entries[i].file {
            Some(file) => file,
            // Each operand is a file here, so that its name was read.
            None => unreachable!(),
        }
    }
}

/// A law: the operands of a valid command are allowed for its applet under its flags, and the
/// values of its options for its applet. The option that the applet requires is given.
pub fn a_command_has_what_its_applet_may_have()
    // The number of operands, and the kind of each, are those that the applet takes.
    ensures operands { (c : CommandLine) → IsValidCommand c →
        IsTrue (are_allowed_operands
        (operand_rule_if_needed_kind_flag_given c.applet c.flags) c.operands) }
    // Each value is one that its option may have, and no two values exclude each other.
    ensures values { (c : CommandLine) → IsValidCommand c →
        IsTrue (are_allowed_values (value_rules c.applet) c.values) }
    // The option that the applet requires is given.
    ensures needed { (c : CommandLine) (letter : ℕ) → IsValidCommand c →
        required_option_letter c.applet ≡ Some letter → IsTrue (is_given letter c.values) }
{}

/// A law: if the applet takes files as operands, each operand of a valid command can name a file.
pub fn file_operands_are_files()
    ensures { (c : CommandLine) (rule : OperandRule) → IsValidCommand c →
        operand_rule_if_needed_kind_flag_given c.applet c.flags ≡ Some rule → rule.kind
        ≡ OperandKind.File →
        IsTrue (are_files c.operands) }
{}

/// A law: each value of a valid command is of its option's kind. That of `--output` is a path of at
/// most 1,016 bytes, that of `--files` a path, and each of `--script` is TYPE:FILE.
pub fn values_are_of_their_kind()
    // Each value is one that its option may have.
    ensures each { (c : CommandLine) (i : ℕ) (v : OptionValue) → IsValidCommand c →
        slice_get c.values i ≡ Some v →
        IsTrue (is_allowed_value (value_rule_of_letter (value_rules c.applet) v.letter) v.text) }
    // The first value of `--output` can name a file that is to be written.
    ensures output { (c : CommandLine) (v : OptionValue) → IsValidCommand c →
        first_value_with_letter OUTPUT c.values ≡ Some v
        → IsTrue (is_file_argument_within_output_length v.text) }
    // The first value of `--files` can name a folder.
    ensures folder { (c : CommandLine) (v : OptionValue) → IsValidCommand c →
        first_value_with_letter FILES c.values ≡ Some v → IsTrue (is_file_argument v.text) }
    // Each value of `--script` is TYPE:FILE.
    ensures script { (c : CommandLine) (i : ℕ) (v : OptionValue) → IsValidCommand c →
        slice_get c.values i ≡ Some v → v.letter ≡ SCRIPT → IsTrue (is_script_argument v.text) }
{}
