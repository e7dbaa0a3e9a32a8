//! The texts of `--help`: a row for each command, option and operand, and for fields of a package.
//! They are shown in `docs/commands.md`, "Help".
ghost use Rattle.std.specs.Prelude.{◌≡◌, map};
ghost use Rattle.words_core.specs.HelpTexts.{common_option_help, field_help, listed_commands, operand_help, option_help, purpose, synopsis};
ghost use Rattle.words_core.specs.Rows.{help_row_line};

use command_core::Applet;

/// A line of help.
#[derive(Clone, Copy)]
pub(crate) struct HelpRow {
    /// What is explained.
    pub subject: &'static [u8],
    /// Its explanation.
    pub text: &'static [u8],
}

/// How the program is called.
pub(crate) const PROGRAM_USAGE: &[u8] =
    b"usage: apk [OPTION..] COMMAND [OPTION or OPERAND..] [-- OPERAND..]\n";

/// The commands, in the order in which help lists them.
#[rattlefmt::skip]
pub(crate) static LISTED_COMMANDS: [Applet; 17] = [
    Applet::Add,
    Applet::Del,
    Applet::Upgrade,
    Applet::Fix,
    Applet::Info,
    Applet::List,
    Applet::Search,
    Applet::Policy,
    Applet::Audit,
    Applet::Manifest,
    Applet::Verify,
    Applet::Adbdump,
    Applet::Adbgen,
    Applet::Mkpkg,
    Applet::Mkndx,
    Applet::Version,
    Applet::Demo,
];

// Help lines that several commands have.
#[rattlefmt::skip]
const INITDB_HELP: HelpRow =
    HelpRow { subject: b"    --initdb", text: b"begin a package database if there is none" };

#[rattlefmt::skip]
const SIMULATE_HELP: HelpRow =
    HelpRow { subject: b"-s, --simulate", text: b"print the changes, and make none" };

#[rattlefmt::skip]
const COMPRESSION_HELP: HelpRow =
    HelpRow { subject: b"-c, --compression none", text: b"no other compression is known" };

#[rattlefmt::skip]
const NAME_HELP: HelpRow =
    HelpRow { subject: b"NAME", text: b"the name of a package" };

#[rattlefmt::skip]
const FILE_HELP: HelpRow =
    HelpRow { subject: b"FILE", text: b"the path of a container below this folder" };

#[rattlefmt::skip]
const PATTERN_HELP: HelpRow =
    HelpRow { subject: b"PATTERN", text: b"a name, in which each * stands for any text" };

// The help lines of the options that every command has.
#[rattlefmt::skip]
static COMMON_OPTIONS: [HelpRow; 4] = [
    HelpRow {
        subject: b"    --allow-untrusted",
        text: b"needed once etc/apk/repositories names an index",
    },
    HelpRow { subject: b"    --no-scripts", text: b"make changes; run no scripts, no triggers" },
    HelpRow { subject: b"-h, --help", text: b"print this help, or that of a command" },
    HelpRow { subject: b"-V, --version", text: b"print the version of apk" },
];

// The usage of each command, one line for each way to call it.
#[rattlefmt::skip]
static ADD_SYNOPSIS: [&[u8]; 1] = [
    b"apk add [--initdb] [-s] [DEPENDENCY..]",
];

#[rattlefmt::skip]
static DEL_SYNOPSIS: [&[u8]; 1] = [
    b"apk del [-s] [--purge] NAME..",
];

#[rattlefmt::skip]
static UPGRADE_SYNOPSIS: [&[u8]; 1] = [
    b"apk upgrade [-s] [NAME..]",
];

#[rattlefmt::skip]
static FIX_SYNOPSIS: [&[u8]; 1] = [
    b"apk fix [-s] NAME..",
];

#[rattlefmt::skip]
static INFO_SYNOPSIS: [&[u8]; 3] = [
    b"apk info [NAME..]",
    b"apk info -e|-L|-R NAME..",
    b"apk info -W PATH",
];

#[rattlefmt::skip]
static LIST_SYNOPSIS: [&[u8]; 1] = [
    b"apk list [-I] [PATTERN..]",
];

#[rattlefmt::skip]
static SEARCH_SYNOPSIS: [&[u8]; 1] = [
    b"apk search PATTERN..",
];

#[rattlefmt::skip]
static POLICY_SYNOPSIS: [&[u8]; 1] = [
    b"apk policy NAME..",
];

#[rattlefmt::skip]
static AUDIT_SYNOPSIS: [&[u8]; 1] = [
    b"apk audit",
];

#[rattlefmt::skip]
static MANIFEST_SYNOPSIS: [&[u8]; 1] = [
    b"apk manifest NAME..",
];

#[rattlefmt::skip]
static VERIFY_SYNOPSIS: [&[u8]; 1] = [
    b"apk verify FILE..",
];

#[rattlefmt::skip]
static ADBDUMP_SYNOPSIS: [&[u8]; 1] = [
    b"apk adbdump FILE",
];

#[rattlefmt::skip]
static ADBGEN_SYNOPSIS: [&[u8]; 1] = [
    b"apk adbgen FILE",
];

#[rattlefmt::skip]
static MKPKG_SYNOPSIS: [&[u8]; 1] = [
    b"apk mkpkg -I name:NAME -I version:VERSION [OPTION..]",
];

#[rattlefmt::skip]
static MKNDX_SYNOPSIS: [&[u8]; 1] = [
    b"apk mkndx [-d TEXT] -o FILE [PACKAGE..]",
];

#[rattlefmt::skip]
static VERSION_SYNOPSIS: [&[u8]; 2] = [
    b"apk version -t VERSION VERSION",
    b"apk version -c TEXT..",
];

#[rattlefmt::skip]
static DEMO_SYNOPSIS: [&[u8]; 1] = [
    b"apk demo NUMBER",
];

// The help lines of the options that each command has besides the common ones.
#[rattlefmt::skip]
static ADD_OPTIONS: [HelpRow; 2] = [
    INITDB_HELP,
    SIMULATE_HELP,
];

#[rattlefmt::skip]
static DEL_OPTIONS: [HelpRow; 2] = [
    SIMULATE_HELP,
    HelpRow { subject: b"    --purge", text: b"remove changed configuration files too" },
];

#[rattlefmt::skip]
static SIMULATE_OPTIONS: [HelpRow; 1] = [
    SIMULATE_HELP,
];

#[rattlefmt::skip]
static INFO_OPTIONS: [HelpRow; 4] = [
    HelpRow { subject: b"-e, --installed", text: b"print which of the packages are installed" },
    HelpRow { subject: b"-L, --contents", text: b"print the files of the packages" },
    HelpRow { subject: b"-R, --depends", text: b"print what the packages depend on" },
    HelpRow { subject: b"-W, --who-owns", text: b"print which package owns the file" },
];

#[rattlefmt::skip]
static LIST_OPTIONS: [HelpRow; 1] = [
    HelpRow { subject: b"-I, --installed", text: b"list installed packages only" },
];

#[rattlefmt::skip]
static MKPKG_OPTIONS: [HelpRow; 6] = [
    HelpRow { subject: b"-I, --info FIELD:VALUE", text: b"a field; name and version are needed" },
    HelpRow { subject: b"-s, --script TYPE:FILE", text: b"a script below this folder, as post-install:FILE" },
    HelpRow { subject: b"-t, --trigger PATTERN", text: b"folders that the trigger script is for" },
    HelpRow { subject: b"-F, --files DIR", text: b"the folder below this one with the package's files" },
    HelpRow { subject: b"-o, --output FILE", text: b"the file below this folder, else NAME-VERSION.apk" },
    COMPRESSION_HELP,
];

#[rattlefmt::skip]
static MKNDX_OPTIONS: [HelpRow; 3] = [
    HelpRow { subject: b"-d, --description TEXT", text: b"what the index is of" },
    HelpRow { subject: b"-o, --output FILE", text: b"the file to write below this folder; it is needed" },
    COMPRESSION_HELP,
];

#[rattlefmt::skip]
static VERSION_OPTIONS: [HelpRow; 2] = [
    HelpRow { subject: b"-t, --test", text: b"compare two versions: <, = or >" },
    HelpRow { subject: b"-c, --check", text: b"print each text that is no version" },
];

// The help lines of the fields that the option `-I` of `mkpkg` takes, by what their values are.
#[rattlefmt::skip]
static MKPKG_FIELDS: [HelpRow; 6] = [
    HelpRow { subject: b"needed", text: b"name, version" },
    HelpRow { subject: b"any text", text: b"description, arch, license, origin, maintainer, url" },
    HelpRow { subject: b"a number", text: b"build-time, provider-priority, replaces-priority" },
    HelpRow { subject: b"hexadecimal digits", text: b"repo-commit" },
    HelpRow { subject: b"dependencies", text: b"depends, provides, replaces, install-if, recommends" },
    HelpRow { subject: b"words", text: b"tags" },
];

// The help lines of the operands of each command.
#[rattlefmt::skip]
static ADD_OPERANDS: [HelpRow; 1] = [
    HelpRow { subject: b"DEPENDENCY", text: b"a name (no path), or name>=1.2, name@tag, !name" },
];

#[rattlefmt::skip]
static NAME_OPERANDS: [HelpRow; 1] = [
    NAME_HELP,
];

#[rattlefmt::skip]
static INFO_OPERANDS: [HelpRow; 2] = [
    NAME_HELP,
    HelpRow { subject: b"PATH", text: b"a file below this folder; a first / is dropped" },
];

#[rattlefmt::skip]
static LIST_OPERANDS: [HelpRow; 1] = [
    PATTERN_HELP,
];

#[rattlefmt::skip]
static SEARCH_OPERANDS: [HelpRow; 1] = [
    HelpRow { subject: b"PATTERN", text: b"a part of a name, in which each * stands for any text" },
];

#[rattlefmt::skip]
static FILE_OPERANDS: [HelpRow; 1] = [
    FILE_HELP,
];

#[rattlefmt::skip]
static ADBGEN_OPERANDS: [HelpRow; 1] = [
    HelpRow { subject: b"FILE", text: b"a text as adbdump prints it, below this folder" },
];

#[rattlefmt::skip]
static MKNDX_OPERANDS: [HelpRow; 1] = [
    HelpRow { subject: b"PACKAGE", text: b"a package below this folder, kept beside the index" },
];

#[rattlefmt::skip]
static VERSION_OPERANDS: [HelpRow; 2] = [
    HelpRow { subject: b"VERSION", text: b"a version, as 1.2.3-r0" },
    HelpRow { subject: b"TEXT", text: b"any text" },
];

#[rattlefmt::skip]
static DEMO_OPERANDS: [HelpRow; 1] = [
    HelpRow { subject: b"NUMBER", text: b"a number from 1 to 20000" },
];

/// How a command is called, a line each.
pub(crate) fn synopsis(applet: Applet) -> &'static [&'static [u8]]
    ensures { map (λ line. line.now) result.now ≡ synopsis applet }
{
    match applet {
        Applet::Add => &ADD_SYNOPSIS,
        Applet::Del => &DEL_SYNOPSIS,
        Applet::Upgrade => &UPGRADE_SYNOPSIS,
        Applet::Fix => &FIX_SYNOPSIS,
        Applet::Info => &INFO_SYNOPSIS,
        Applet::List => &LIST_SYNOPSIS,
        Applet::Search => &SEARCH_SYNOPSIS,
        Applet::Policy => &POLICY_SYNOPSIS,
        Applet::Audit => &AUDIT_SYNOPSIS,
        Applet::Manifest => &MANIFEST_SYNOPSIS,
        Applet::Verify => &VERIFY_SYNOPSIS,
        Applet::Adbdump => &ADBDUMP_SYNOPSIS,
        Applet::Adbgen => &ADBGEN_SYNOPSIS,
        Applet::Mkpkg => &MKPKG_SYNOPSIS,
        Applet::Mkndx => &MKNDX_SYNOPSIS,
        Applet::Version => &VERSION_SYNOPSIS,
        Applet::Demo => &DEMO_SYNOPSIS,
        Applet::Help | Applet::ProgramVersion => &[],
    }
}

/// What a command does, as `--help` prints it.
pub(crate) fn purpose(applet: Applet) -> &'static [u8]
    ensures { result.now ≡ purpose applet }
{
    match applet {
        Applet::Add => b"install packages, and what they need",
        Applet::Del => b"remove packages, and what only they need",
        Applet::Upgrade => b"bring packages to preferred versions; run mkndx for new ones first",
        Applet::Fix => b"install packages again",
        Applet::Info => b"print which packages are installed, or what they have",
        Applet::List => b"list packages, installed ones and those of repositories",
        Applet::Search => b"find packages of repositories by name",
        Applet::Policy => b"print the versions of packages, and where each is",
        Applet::Audit => b"print which installed files are changed (U) or missing (X)",
        Applet::Manifest => b"print the hashes of the files of packages",
        Applet::Verify => b"test packages, indexes and databases",
        Applet::Adbdump => b"print a container as text",
        Applet::Adbgen => b"make a container from its text",
        Applet::Mkpkg => b"make a package",
        Applet::Mkndx => b"make an index of packages",
        Applet::Version => b"compare two versions, or test texts for being versions",
        Applet::Demo => b"install so many small packages in memory",
        Applet::Help | Applet::ProgramVersion => b"",
    }
}

/// The help lines of the options that every command has.
pub(crate) fn common_option_help() -> &'static [HelpRow]
    ensures { map help_row_line result.now ≡ common_option_help }
{
    &COMMON_OPTIONS
}

/// The help lines of the options that a command has besides the common ones.
pub(crate) fn option_help(applet: Applet) -> &'static [HelpRow]
    ensures { map help_row_line result.now ≡ option_help applet }
{
    match applet {
        Applet::Add => &ADD_OPTIONS,
        Applet::Del => &DEL_OPTIONS,
        Applet::Upgrade | Applet::Fix => &SIMULATE_OPTIONS,
        Applet::Info => &INFO_OPTIONS,
        Applet::List => &LIST_OPTIONS,
        Applet::Mkpkg => &MKPKG_OPTIONS,
        Applet::Mkndx => &MKNDX_OPTIONS,
        Applet::Version => &VERSION_OPTIONS,
        _ => &[],
    }
}

/// The help lines of the fields that the option `-I` of a command takes; only `mkpkg` has one.
pub(crate) fn field_help(applet: Applet) -> &'static [HelpRow]
    ensures { map help_row_line result.now ≡ field_help applet }
{
    match applet {
        Applet::Mkpkg => &MKPKG_FIELDS,
        _ => &[],
    }
}

/// The help lines of the operands of a command.
pub(crate) fn operand_help(applet: Applet) -> &'static [HelpRow]
    ensures { map help_row_line result.now ≡ operand_help applet }
{
    match applet {
        Applet::Add => &ADD_OPERANDS,
        Applet::Del | Applet::Upgrade | Applet::Fix | Applet::Policy | Applet::Manifest =>
            &NAME_OPERANDS,
        Applet::Info => &INFO_OPERANDS,
        Applet::List => &LIST_OPERANDS,
        Applet::Search => &SEARCH_OPERANDS,
        Applet::Verify | Applet::Adbdump => &FILE_OPERANDS,
        Applet::Adbgen => &ADBGEN_OPERANDS,
        Applet::Mkndx => &MKNDX_OPERANDS,
        Applet::Version => &VERSION_OPERANDS,
        Applet::Demo => &DEMO_OPERANDS,
        _ => &[],
    }
}
