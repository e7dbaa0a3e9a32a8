//! The applets that exist, and the words that spell them and their options (apk(8)). The rules are
//! in `docs/commands.md`, "Words", the table of options and the paragraph on those before the
//! applet.
ghost use Rattle.std.specs.Prelude.{◌≡◌, ◌||◌, ◌++◌, map};
ghost use Rattle.std.specs.List.{find};
ghost use Rattle.std.specs.Option.{option_and_then, option_map};
ghost use Rattle.std.specs.Str.{bytes_eq};
ghost use Rattle.words_core.specs.Grammar.{value_rule_of_meaning, flags_with_meaning_if_one_command_kind, flags_with_option_if_one_command_kind};
ghost use Rattle.words_core.specs.Options.{applet_of, applet_word, applet_of_help_or_version_option, common_options, is_option_word_that_may_precede_applet, option_of_word, options_of, own_options};
ghost use Rattle.words_core.specs.Rows.{option_spec};

use command_core::{
    Applet, COMPRESSION, DESCRIPTION, FILES, Flag, Flags, INFO, OUTPUT, SCRIPT, TRIGGER, ValueKind,
    ValueRule, is_among,
};

/// An option, as the table of options has it.
#[derive(Clone, Copy)]
pub(crate) struct OptionRow {
    /// The long word that spells it.
    pub long: &'static [u8],
    /// The short word that spells it, or nothing.
    pub short: &'static [u8],
    /// Its meaning.
    pub meaning: Meaning,
}

/// The meaning of an option.
#[derive(Clone, Copy)]
pub(crate) enum Meaning {
    /// A flag, which may be given any number of times.
    Flag(Flag),
    /// A flag that selects the kind of the command: no other kind may be given with it.
    Kind(Flag),
    /// A value, which is in the option's word or is the next word.
    Value(ValueRule),
}

// The applets that words name.
const APPLETS: [Applet; 17] = [
    Applet::Add,
    Applet::Del,
    Applet::Upgrade,
    Applet::Fix,
    Applet::Info,
    Applet::Verify,
    Applet::Version,
    Applet::Adbdump,
    Applet::Mkpkg,
    Applet::Mkndx,
    Applet::Demo,
    Applet::Adbgen,
    Applet::Audit,
    Applet::Manifest,
    Applet::List,
    Applet::Search,
    Applet::Policy,
];

// The words of the options that may precede the applet.
static EARLY_WORDS: [&[u8]; 5] = [
    b"--allow-untrusted",
    b"--no-scripts",
    b"--initdb",
    b"--simulate",
    b"--purge",
];

// The words that ask how a command is used.
static HELP_WORDS: [&[u8]; 2] = [b"--help", b"-h"];

// The words that ask for the version of the program.
static VERSION_WORDS: [&[u8]; 2] = [b"--version", b"-V"];

// The common options: every applet that a word names has them.
static COMMON: [OptionRow; 2] = [
    OptionRow {
        long: b"--allow-untrusted",
        short: b"",
        meaning: Meaning::Flag(Flag::AllowUntrusted),
    },
    OptionRow {
        long: b"--no-scripts",
        short: b"",
        meaning: Meaning::Flag(Flag::NoScripts),
    },
];

// The option of `add` that makes a database if there is none.
const INITDB_ROW: OptionRow = OptionRow {
    long: b"--initdb",
    short: b"",
    meaning: Meaning::Flag(Flag::Initdb),
};

// The option of `add`, `del`, `upgrade` and `fix` under which the change is reported and not made.
const SIMULATE_ROW: OptionRow = OptionRow {
    long: b"--simulate",
    short: b"-s",
    meaning: Meaning::Flag(Flag::Simulate),
};

// The option of `del` that also removes protected configuration files.
const PURGE_ROW: OptionRow = OptionRow {
    long: b"--purge",
    short: b"",
    meaning: Meaning::Flag(Flag::Purge),
};

// The option of `mkpkg` and `mkndx` that names their output; it may be given once.
const OUTPUT_ROW: OptionRow = OptionRow {
    long: b"--output",
    short: b"-o",
    meaning: Meaning::Value(ValueRule {
        letter: OUTPUT,
        single: true,
        kind: ValueKind::Output,
    }),
};

// The option of `mkpkg` and `mkndx` that says how their output is compressed, of which only `none`
// is allowed; it may be given once.
const COMPRESSION_ROW: OptionRow = OptionRow {
    long: b"--compression",
    short: b"-c",
    meaning: Meaning::Value(ValueRule {
        letter: COMPRESSION,
        single: true,
        kind: ValueKind::Uncompressed,
    }),
};

// The options of `add` that are its own.
static ADD: [OptionRow; 2] = [INITDB_ROW, SIMULATE_ROW];

// The options of `del` that are its own.
static DEL: [OptionRow; 2] = [SIMULATE_ROW, PURGE_ROW];

// The option of `upgrade` and of `fix` that is their own.
static SIMULATE: [OptionRow; 1] = [SIMULATE_ROW];

// The options of `info`, each of which selects the kind.
#[rattlefmt::skip]
static INFO_KINDS: [OptionRow; 4] = [
    OptionRow { long: b"--installed", short: b"-e", meaning: Meaning::Kind(Flag::Installed) },
    OptionRow { long: b"--contents", short: b"-L", meaning: Meaning::Kind(Flag::Contents) },
    OptionRow { long: b"--depends", short: b"-R", meaning: Meaning::Kind(Flag::Depends) },
    OptionRow { long: b"--who-owns", short: b"-W", meaning: Meaning::Kind(Flag::WhoOwns) },
];

// The option of `list`, under which only packages that are installed are listed.
#[rattlefmt::skip]
static LIST_KINDS: [OptionRow; 1] = [
    OptionRow { long: b"--installed", short: b"-I", meaning: Meaning::Kind(Flag::Installed) },
];

// The options of `version`, each of which selects the kind.
#[rattlefmt::skip]
static VERSION_KINDS: [OptionRow; 2] = [
    OptionRow { long: b"--test", short: b"-t", meaning: Meaning::Kind(Flag::Test) },
    OptionRow { long: b"--check", short: b"-c", meaning: Meaning::Kind(Flag::Check) },
];

// The options of `mkpkg`.
static MKPKG: [OptionRow; 6] = [
    // May be given often, with any text: a field of the package.
    OptionRow {
        long: b"--info",
        short: b"-I",
        meaning: Meaning::Value(ValueRule {
            letter: INFO,
            single: false,
            kind: ValueKind::Any,
        }),
    },
    // May be given once for each type of script.
    OptionRow {
        long: b"--script",
        short: b"-s",
        meaning: Meaning::Value(ValueRule {
            letter: SCRIPT,
            single: false,
            kind: ValueKind::Script,
        }),
    },
    // May be given often; its value is not empty.
    OptionRow {
        long: b"--trigger",
        short: b"-t",
        meaning: Meaning::Value(ValueRule {
            letter: TRIGGER,
            single: false,
            kind: ValueKind::Nonempty,
        }),
    },
    // May be given once; its value names a folder.
    OptionRow {
        long: b"--files",
        short: b"-F",
        meaning: Meaning::Value(ValueRule {
            letter: FILES,
            single: true,
            kind: ValueKind::File,
        }),
    },
    OUTPUT_ROW,
    COMPRESSION_ROW,
];

// The options of `mkndx`.
static MKNDX: [OptionRow; 3] = [
    // May be given once, with any text: the description of the index.
    OptionRow {
        long: b"--description",
        short: b"-d",
        meaning: Meaning::Value(ValueRule {
            letter: DESCRIPTION,
            single: true,
            kind: ValueKind::Any,
        }),
    },
    OUTPUT_ROW,
    COMPRESSION_ROW,
];

/// The word of an applet, or nothing if no word names it.
pub(crate) fn applet_word(applet: Applet) -> &'static [u8]
    ensures { result.now ≡ applet_word applet }
{
    match applet {
        Applet::Add => b"add",
        Applet::Del => b"del",
        Applet::Upgrade => b"upgrade",
        Applet::Fix => b"fix",
        Applet::Info => b"info",
        Applet::Verify => b"verify",
        Applet::Adbdump => b"adbdump",
        Applet::Mkpkg => b"mkpkg",
        Applet::Mkndx => b"mkndx",
        Applet::Version => b"version",
        Applet::Demo => b"demo",
        Applet::Adbgen => b"adbgen",
        Applet::Audit => b"audit",
        Applet::Manifest => b"manifest",
        Applet::List => b"list",
        Applet::Search => b"search",
        Applet::Policy => b"policy",
        // No word names these two: `--help` and `--version` ask for them.
        Applet::Help | Applet::ProgramVersion => b"",
    }
}

// The options that an applet has besides the common ones.
fn own_options(applet: Applet) -> &'static [OptionRow]
    ensures { map option_spec result.now ≡ own_options applet }
{
    match applet {
        Applet::Add => &ADD,
        Applet::Del => &DEL,
        Applet::Upgrade | Applet::Fix => &SIMULATE,
        Applet::Info => &INFO_KINDS,
        Applet::Mkpkg => &MKPKG,
        Applet::Mkndx => &MKNDX,
        Applet::Version => &VERSION_KINDS,
        Applet::List => &LIST_KINDS,
        _ => &[],
    }
}

/// The applet that a word names, if it names one.
pub(crate) fn applet_of(word: &[u8]) -> Option<Applet>
    ensures { result ≡ applet_of word.now }
{
    find_applet_named(&APPLETS, word)
}

// The applet that a word names, among these applets.
fn find_applet_named(applets: &[Applet], word: &[u8]) -> Option<Applet>
    ensures { result
        ≡ find (λ applet. bytes_eq (applet_word applet) word.now) applets.now }
{
    for applet in applets {
        if applet_word(*applet) == word {
            return Some(*applet);
        }
    }
    None
}

/// Whether a word is an option that may precede the applet.
#[tactic(auto, unfolding(crate::specs::Options::option_words_that_may_precede_applet))]
pub(crate) fn is_option_word_that_may_precede_applet(word: &[u8]) -> bool
    ensures { result ≡ is_option_word_that_may_precede_applet word.now }
{
    is_among(&EARLY_WORDS, word)
}

/// The option that a word spells, among those of an applet.
#[tactic(auto, unfolding(crate::specs::Options::options_of))]
pub(crate) fn option_of_word(applet: Applet, word: &[u8]) -> Option<OptionRow>
    ensures { option_map option_spec result ≡ option_of_word (options_of applet) word.now }
{
    match applet {
        Applet::Help | Applet::ProgramVersion => None,
        _ => common_or_own(applet, word),
    }
}

// The option that a word spells, among the common ones of all applets and the own ones of this
// applet.
fn common_or_own(applet: Applet, word: &[u8]) -> Option<OptionRow>
    ensures { option_map option_spec result
        ≡ option_of_word (common_options ++ own_options applet) word.now }
{
    match common_option(word) {
        Some(option) => Some(option),
        None => find_option(own_options(applet), word),
    }
}

/// The applet that an option asks for: `--help` or `-h`, and `--version` or `-V`.
pub(crate) fn applet_of_help_or_version_option(word: &[u8]) -> Option<Applet>
    ensures { result ≡ applet_of_help_or_version_option word.now }
{
    if is_among(&HELP_WORDS, word) {
        return Some(Applet::Help);
    }
    if is_among(&VERSION_WORDS, word) {
        return Some(Applet::ProgramVersion);
    }
    None
}

// The option that a word spells, among those of every applet.
#[tactic(auto, unfolding(crate::specs::Options::common_options))]
fn common_option(word: &[u8]) -> Option<OptionRow>
    ensures { option_map option_spec result ≡ option_of_word common_options word.now }
{
    find_option(&COMMON, word)
}

// The option that a word spells, among these options.
fn find_option(options: &[OptionRow], word: &[u8]) -> Option<OptionRow>
    ensures { option_map option_spec result
        ≡ option_of_word (map option_spec options.now) word.now }
{
    for option in options {
        if option.is_spelled(word) {
            return Some(*option);
        }
    }
    None
}

/// Flags with an option added. None if there is no option, or in the cases of `Meaning::with`.
pub(crate) fn flags_with_option_word_if_one_command_kind(
    flags: Flags,
    option: Option<OptionRow>,
) -> Option<Flags>
    ensures { result ≡ option_and_then (flags_with_option_if_one_command_kind flags)
        (option_map option_spec option) }
{
    option?.meaning.with(flags)
}

impl OptionRow {
    // Whether a word spells the option.
    fn is_spelled(&self, word: &[u8]) -> bool
        ensures { result
            ≡ (bytes_eq self.now.long.now word.now || bytes_eq self.now.short.now word.now) }
    {
        self.long == word || self.short == word
    }
}

impl Meaning {
    /// The rule of the values of the option with this meaning. None: the option takes no value.
    pub(crate) fn rule(self) -> Option<ValueRule>
        ensures { result ≡ value_rule_of_meaning self }
    {
        match self {
            Meaning::Value(rule) => Some(rule),
            _ => None,
        }
    }

    /// The flags with that of an option with this meaning added. None if the option takes a value,
    /// or if it selects a kind of the command other than that of an earlier flag.
    pub(crate) fn with(self, flags: Flags) -> Option<Flags>
        ensures { result ≡ flags_with_meaning_if_one_command_kind flags self }
    {
        match self {
            Meaning::Flag(flag) => Some(flags.with(flag)),
            Meaning::Kind(flag) if flags.has_command_kind_flag() && !flags.has(flag) => None,
            Meaning::Kind(flag) => Some(flags.with(flag)),
            Meaning::Value(_) => None,
        }
    }
}
