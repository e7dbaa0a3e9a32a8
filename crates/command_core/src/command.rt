//! Applets, the options without a value, and what a command line asks for. The rules are in
//! `docs/commands.md`, "Words"; which operands an applet takes is in the section with its name.
ghost use Rattle.std.specs.Prelude.{◌≡◌, IsTrue};
ghost use Rattle.command_core.specs.Applets.{info_operand_rule, required_option_letter, operand_rule_if_needed_kind_flag_given, version_operand_rule};
ghost use Rattle.command_core.specs.Command.{command_from_parts_and_end_place};
ghost use Rattle.command_core.specs.Sound.{IsValidCommand, is_valid_command};
ghost use Rattle.command_core.specs.Flags.{has_flag, has_command_kind_flag, no_flags, with_flag};

use crate::operands::{OperandKind, OperandRule, Operands};
use crate::values::{OUTPUT, Values};
use std::marker::Model;

/// What a command does (apk(8)).
#[derive(Clone, Copy, PartialEq, Eq)]
pub enum Applet {
    /// Put packages into world, and install what it then needs.
    Add,
    /// Take packages out of world, and remove what it then no longer needs.
    Del,
    /// Bring packages to the versions that are preferred.
    Upgrade,
    /// Install packages again, in their installed versions.
    Fix,
    /// Print which packages are installed, or what they have.
    Info,
    /// Test containers.
    Verify,
    /// Print a container as text.
    Adbdump,
    /// Make a package.
    Mkpkg,
    /// Make an index of packages.
    Mkndx,
    /// Compare two versions, or check texts for being versions.
    Version,
    /// Show an installation of many packages in memory.
    Demo,
    /// Make a container from the text that `adbdump` prints.
    Adbgen,
    /// Report installed files that differ from what their packages list.
    Audit,
    /// Print the hashes of the files of installed packages.
    Manifest,
    /// List packages, installed ones and those of repositories.
    List,
    /// Find packages of repositories by name, or by what they provide.
    Search,
    /// Report the versions of a package, and where each of them is.
    Policy,
    /// Print how a command, or the program, is used.
    Help,
    /// Print the version of the program.
    ProgramVersion,
}

/// An option without a value; the fields of `Flags` explain each.
#[derive(Clone, Copy)]
pub enum Flag {
    /// `--allow-untrusted`.
    AllowUntrusted,
    /// `--no-scripts`.
    NoScripts,
    /// `--initdb`.
    Initdb,
    /// `--simulate`, `-s`.
    Simulate,
    /// `--purge`.
    Purge,
    /// `--installed`, `-e` of `info`, `-I` of `list`.
    Installed,
    /// `--contents`, `-L`.
    Contents,
    /// `--depends`, `-R`.
    Depends,
    /// `--who-owns`, `-W`.
    WhoOwns,
    /// `--test`, `-t`.
    Test,
    /// `--check`, `-c`.
    Check,
}

/// The options without a value that were given.
#[derive(Clone, Copy)]
pub struct Flags {
    /// `--allow-untrusted`: repositories are read though nobody checks who signed them.
    pub allow_untrusted: bool,
    /// `--no-scripts`: changes are made, but the scripts of packages are not run.
    pub no_scripts: bool,
    /// `--initdb` of `add`: a root without a package database gets one.
    pub initdb: bool,
    /// `--simulate`: nothing is changed, and what would be done is printed.
    pub simulate: bool,
    /// `--purge` of `del`: changed configuration files are removed too.
    pub purge: bool,
    /// `--installed` of `info`: which of the named packages are installed is printed; of `list`:
    /// only packages that are installed are listed.
    pub installed: bool,
    /// `--contents` of `info`: the paths of the files of the packages are printed.
    pub contents: bool,
    /// `--depends` of `info`: what the packages depend on is printed.
    pub depends: bool,
    /// `--who-owns` of `info`: which package owns a path is printed.
    pub who_owns: bool,
    /// `--test` of `version`: two versions are compared.
    pub test: bool,
    /// `--check` of `version`: texts that are no versions are printed.
    pub check: bool,
}

impl Flags {
    /// No flags.
    pub fn none() -> Flags
        ensures { result ≡ no_flags }
    {
        Flags {
            allow_untrusted: false,
            no_scripts: false,
            initdb: false,
            simulate: false,
            purge: false,
            installed: false,
            contents: false,
            depends: false,
            who_owns: false,
            test: false,
            check: false,
        }
    }

    /// Whether a flag was given.
    pub fn has(&self, flag: Flag) -> bool
        ensures { result ≡ has_flag flag self.now }
    {
        match flag {
            Flag::AllowUntrusted => self.allow_untrusted,
            Flag::NoScripts => self.no_scripts,
            Flag::Initdb => self.initdb,
            Flag::Simulate => self.simulate,
            Flag::Purge => self.purge,
            Flag::Installed => self.installed,
            Flag::Contents => self.contents,
            Flag::Depends => self.depends,
            Flag::WhoOwns => self.who_owns,
            Flag::Test => self.test,
            Flag::Check => self.check,
        }
    }

    /// Whether a flag was given that selects the kind of the command (which of its tasks it does):
    /// one of `info`, of `list`, or of `version`.
    pub fn has_command_kind_flag(&self) -> bool
        ensures { result ≡ has_command_kind_flag self.now }
    {
        if self.installed || self.contents || self.depends || self.who_owns {
            return true;
        }
        self.test || self.check
    }

    /// These flags, with `flag` given too.
    pub fn with(mut self, flag: Flag) -> Flags
        ensures { result ≡ with_flag flag self }
    {
        match flag {
            Flag::AllowUntrusted => self.allow_untrusted = true,
            Flag::NoScripts => self.no_scripts = true,
            Flag::Initdb => self.initdb = true,
            Flag::Simulate => self.simulate = true,
            Flag::Purge => self.purge = true,
            Flag::Installed => self.installed = true,
            Flag::Contents => self.contents = true,
            Flag::Depends => self.depends = true,
            Flag::WhoOwns => self.who_owns = true,
            Flag::Test => self.test = true,
            Flag::Check => self.check = true,
        }
        self
    }
}

impl Applet {
    /// The letter of the option with a value that the applet requires, if there is one. Only
    /// `mkndx` requires one, `--output`.
    pub fn required_option_letter(self) -> Option<u8>
        ensures { result ≡ required_option_letter self }
    {
        match self {
            Applet::Mkndx => Some(OUTPUT),
            _ => None,
        }
    }

    /// The rule of the operands that the applet takes under some flags. None: no flag selects the
    /// kind of the command, which only `version` needs.
    pub fn operands(self, flags: Flags) -> Option<OperandRule>
        ensures { result ≡ operand_rule_if_needed_kind_flag_given self flags }
    {
        match self {
            Applet::Add => Some(OperandRule::at_least(0, OperandKind::Dependency)),
            Applet::Del => Some(OperandRule::at_least(1, OperandKind::DependencyName)),
            Applet::Upgrade => Some(OperandRule::at_least(0, OperandKind::PackageName)),
            Applet::Fix => Some(OperandRule::at_least(1, OperandKind::PackageName)),
            Applet::Info => Some(info_operand_rule(flags)),
            Applet::Verify => Some(OperandRule::at_least(1, OperandKind::File)),
            Applet::Adbdump => Some(OperandRule::exactly(1, OperandKind::File)),
            Applet::Mkpkg => Some(OperandRule::exactly(0, OperandKind::File)),
            Applet::Mkndx => Some(OperandRule::at_least(0, OperandKind::File)),
            Applet::Version => version_operand_rule(flags),
            Applet::Demo => Some(OperandRule::exactly(1, OperandKind::Number)),
            Applet::Adbgen => Some(OperandRule::exactly(1, OperandKind::File)),
            Applet::Audit => Some(OperandRule::exactly(0, OperandKind::Any)),
            Applet::Manifest => Some(OperandRule::at_least(1, OperandKind::PackageName)),
            Applet::List => Some(OperandRule::at_least(0, OperandKind::Pattern)),
            Applet::Search => Some(OperandRule::at_least(1, OperandKind::Pattern)),
            Applet::Policy => Some(OperandRule::at_least(1, OperandKind::PackageName)),
            Applet::Help => Some(OperandRule::at_most(1, OperandKind::Any)),
            Applet::ProgramVersion => Some(OperandRule::exactly(0, OperandKind::Any)),
        }
    }
}

// The rule of the operands of `info` under some flags.
fn info_operand_rule(flags: Flags) -> OperandRule
    ensures { result ≡ info_operand_rule flags }
{
    if flags.who_owns {
        return OperandRule::exactly(1, OperandKind::Path);
    }
    if flags.installed || flags.contents || flags.depends {
        return OperandRule::at_least(1, OperandKind::PackageName);
    }
    OperandRule::at_least(0, OperandKind::PackageName)
}

// The rule of the operands of `version`, by the flag that selects its kind. None if neither
// `--test` nor `--check` is given.
fn version_operand_rule(flags: Flags) -> Option<OperandRule>
    ensures { result ≡ version_operand_rule flags }
{
    if flags.test {
        return Some(OperandRule::exactly(2, OperandKind::Any));
    }
    if flags.check {
        return Some(OperandRule::at_least(1, OperandKind::Any));
    }
    None
}

/// What a command line asks for.
#[derive(Drop)]
pub struct Command {
    /// What the command does.
    applet: Applet,
    /// The options without a value that were given.
    flags: Flags,
    /// The operands after the name of the applet.
    operands: Operands,
    /// The values that options were given.
    values: Values,
    // The place after the last argument of the command line, counted from 1.
    behind: u32,
}

impl Model for Command {
    ghost use Rattle.command_core.specs.Command.{CommandLine, command_from_parts_and_end_place};
    ghost use Rattle.command_core.specs.Sound.{is_valid_command};
    ghost use Rattle.std.specs.Prelude.{IsTrue};

    ghost Value = { CommandLine };

    // The five parts as one value.
    ghost view = { λ c. command_from_parts_and_end_place c.applet c.flags c.operands c.values c.behind };

    // The command is valid: it has what the rules of its applet require.
    ghost invariant = { λ c.
        IsTrue (is_valid_command
        (command_from_parts_and_end_place c.applet c.flags c.operands c.values c.behind)) };
}

impl Command {
    /// The command with these parts; `behind` is the place after its last word.
    pub fn of(
        applet: Applet,
        flags: Flags,
        operands: Operands,
        values: Values,
        behind: u32,
    ) -> Command
        // The applet may have these flags, operands and values, and no required value is missing.
        requires { IsTrue (is_valid_command
            (command_from_parts_and_end_place applet flags operands values behind)) }
        ensures { result ≡ command_from_parts_and_end_place applet flags operands values behind }
    {
        Command {
            applet,
            flags,
            operands,
            values,
            behind,
        }
    }

    /// What the command does: the applet that the command line names, or the one that `--help` or
    /// `--version` asks for.
    pub fn applet(&self) -> Applet
        ensures value { result ≡ self.now.applet }
        // The command obeys the rules of its applet.
        ensures command { IsValidCommand self.now }
    {
        self.applet
    }

    /// The options without a value that were given.
    pub fn flags(&self) -> Flags
        ensures value { result ≡ self.now.flags }
        // The command obeys the rules of its applet.
        ensures command { IsValidCommand self.now }
    {
        self.flags
    }

    /// The operands after the applet.
    pub fn operands(&self) -> &Operands
        ensures value { result.now ≡ self.now.operands }
        // The command obeys the rules of its applet.
        ensures command { IsValidCommand self.now }
    {
        &self.operands
    }

    /// The values that options of the command were given.
    pub fn values(&self) -> &Values
        ensures value { result.now ≡ self.now.values }
        // The command obeys the rules of its applet.
        ensures command { IsValidCommand self.now }
    {
        &self.values
    }

    /// The place after the last word, counted from 1, which is reported if a word is missing.
    pub fn behind(&self) -> u32
        ensures { result ≡ self.now.behind }
    {
        self.behind
    }
}
