//! The fields of `-I` of `mkpkg` (apk(8)), and the grammar of each one's values.
//! The rules are in `docs/commands.md`, "`mkpkg`", the table of fields.
ghost use Rattle.make_info.specs.Fields.{field_of, field_word, may_repeat, kind_of_field, field_among, decimal_number_without_leading_zeros};
ghost use Rattle.std.specs.Prelude.{◌≡◌};

use command_core::is_decimal_without_leading_zeros;
use std::str;

/// A field of a package's information that `-I` of `mkpkg` may give (apk(8), `mkpkg`).
#[derive(Clone, Copy, Debug, PartialEq, Eq)]
pub(crate) enum Field {
    Name,
    Version,
    Description,
    Arch,
    License,
    Origin,
    Maintainer,
    Url,
    RepoCommit,
    BuildTime,
    ProviderPriority,
    ReplacesPriority,
    Depends,
    Provides,
    Replaces,
    InstallIf,
    Recommends,
    Tags,
}

/// The grammar of a field's values.
#[derive(Clone, Copy)]
pub enum Kind {
    /// A package's name.
    PackageName,
    /// A version.
    PackageVersion,
    /// Any text.
    AnyText,
    /// Pairs of hexadecimal digits, of either case.
    HexDigits,
    /// A decimal number below 2^64 without leading zeros.
    Number,
    /// Dependencies without tag, with spaces between them.
    Dependencies,
    /// Texts with spaces between them.
    Texts,
}

// All fields that `-I` may give, each once.
static FIELDS: [Field; 18] = [
    Field::Name,
    Field::Version,
    Field::Description,
    Field::Arch,
    Field::License,
    Field::Origin,
    Field::Maintainer,
    Field::Url,
    Field::RepoCommit,
    Field::BuildTime,
    Field::ProviderPriority,
    Field::ReplacesPriority,
    Field::Depends,
    Field::Provides,
    Field::Replaces,
    Field::InstallIf,
    Field::Recommends,
    Field::Tags,
];

impl Field {
    /// The field that is named by this word, as in `word:VALUE` after `-I`; None if no field has
    /// this name.
    #[tactic(auto, unfolding(crate::specs::Fields::field_of))]
    pub(crate) fn of(word: &[u8]) -> Option<Field>
        ensures { result ≡ field_of word.now }
    {
        find_named(&FIELDS, word)
    }

    // The word that names the field.
    fn word(self) -> &'static [u8]
        ensures { result.now ≡ field_word self }
    {
        match self {
            Field::Name => b"name",
            Field::Version => b"version",
            Field::Description => b"description",
            Field::Arch => b"arch",
            Field::License => b"license",
            Field::Origin => b"origin",
            Field::Maintainer => b"maintainer",
            Field::Url => b"url",
            Field::RepoCommit => b"repo-commit",
            Field::BuildTime => b"build-time",
            Field::ProviderPriority => b"provider-priority",
            Field::ReplacesPriority => b"replaces-priority",
            Field::Depends => b"depends",
            Field::Provides => b"provides",
            Field::Replaces => b"replaces",
            Field::InstallIf => b"install-if",
            Field::Recommends => b"recommends",
            Field::Tags => b"tags",
        }
    }

    /// The grammar of the field's values.
    pub(crate) fn kind(self) -> Kind
        ensures { result ≡ kind_of_field self }
    {
        match self {
            Field::Name => Kind::PackageName,
            Field::Version => Kind::PackageVersion,
            Field::Description
            | Field::Arch
            | Field::License
            | Field::Origin
            | Field::Maintainer
            | Field::Url => Kind::AnyText,
            Field::RepoCommit => Kind::HexDigits,
            Field::BuildTime | Field::ProviderPriority | Field::ReplacesPriority => Kind::Number,
            Field::Depends
            | Field::Provides
            | Field::Replaces
            | Field::InstallIf
            | Field::Recommends => Kind::Dependencies,
            Field::Tags => Kind::Texts,
        }
    }
}

impl Kind {
    /// Whether a field of this kind may be given several times, each value adding to it.
    pub(crate) fn may_repeat(self) -> bool
        ensures { result ≡ may_repeat self }
    {
        matches!(self, Kind::Dependencies | Kind::Texts)
    }
}

// The first of the given fields that is named by this word.
fn find_named(fields: &[Field], word: &[u8]) -> Option<Field>
    ensures { result ≡ field_among fields.now word.now }
{
    fields.iter().copied().find(|field| field.word() == word)
}

/// The number that the digits encode. None if there are no digits, if another byte is among them,
/// if the number is above 2^64 - 1, or if it has a leading zero.
pub fn read_number(digits: &[u8]) -> Option<u64>
    ensures { result ≡ decimal_number_without_leading_zeros digits.now }
{
    if !is_decimal_without_leading_zeros(digits) {
        return None;
    }
    match str::from_utf8(digits) {
        Ok(text) => text.parse::<u64>().ok(),
        // Decimal digits are UTF-8, so this does not occur.
        Err(_) => None,
    }
}
