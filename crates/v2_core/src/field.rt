//! The fields of a package that lines of a text database give, by the letters of the lines, and the
//! grammar of the values of each field. `line.rt` and `value.rt` use them.
//! The rules are in `docs/formats.md`, "Text database of version 2", the table, from C to the row
//! D, p, r, i.
ghost use Rattle.std.specs.Prelude.{◌≡◌, ◌==◌};
ghost use Rattle.v2_core.specs.InfoFields.{info_field_among, field_of_letter, grammar_of, is_list_info_field, letter_of};

/// A field of a package that a line gives (the installed database of apk-tools 2).
#[derive(Clone, Copy, Debug, PartialEq, Eq)]
pub enum InfoField {
    /// The field of lines `C:value`.
    Hashes,
    /// The field of lines `P:value`.
    Name,
    /// The field of lines `V:value`.
    Version,
    /// The field of lines `A:value`.
    Arch,
    /// The field of lines `T:value`.
    Description,
    /// The field of lines `U:value`.
    Url,
    /// The field of lines `L:value`.
    License,
    /// The field of lines `o:value`.
    Origin,
    /// The field of lines `m:value`.
    Maintainer,
    /// The field of lines `I:value`.
    InstalledSize,
    /// The field of lines `t:value`.
    BuildTime,
    /// The field of lines `k:value`.
    ProviderPriority,
    /// The field of lines `q:value`.
    ReplacesPriority,
    /// The field of lines `c:value`.
    RepoCommit,
    /// The field of lines `D:value`.
    Depends,
    /// The field of lines `p:value`.
    Provides,
    /// The field of lines `r:value`.
    Replaces,
    /// The field of lines `i:value`.
    InstallIf,
}

/// The grammar of a field's values.
#[derive(Clone, Copy)]
pub enum Grammar {
    /// `Q1` and the base64 of the 20 bytes of a SHA-1.
    Sha1Text,
    /// A package's name.
    PackageName,
    /// A version.
    PackageVersion,
    /// Any text.
    AnyText,
    /// A decimal number below 2^64 without leading zeros.
    Number,
    /// Any text, but a text that is not pairs of hexadecimal digits is dropped.
    Commit,
    /// Dependencies without tag, with spaces between them.
    Dependencies,
}

// All fields, in the order of the table of letters.
static FIELDS: [InfoField; 18] = [
    InfoField::Hashes,
    InfoField::Name,
    InfoField::Version,
    InfoField::Arch,
    InfoField::Description,
    InfoField::Url,
    InfoField::License,
    InfoField::Origin,
    InfoField::Maintainer,
    // The fields of lines I, t, k, q, c, and D, p, r, i.
    InfoField::InstalledSize,
    InfoField::BuildTime,
    InfoField::ProviderPriority,
    InfoField::ReplacesPriority,
    InfoField::RepoCommit,
    InfoField::Depends,
    InfoField::Provides,
    InfoField::Replaces,
    InfoField::InstallIf,
];

impl InfoField {
    /// The field whose lines begin with a letter.
    #[tactic(auto, unfolding(crate::specs::InfoFields::field_of_letter))]
    pub(crate) fn of(letter: u8) -> Option<InfoField>
        ensures { result ≡ field_of_letter letter }
    {
        find_by_letter(&FIELDS, letter)
    }

    /// The letter with which the lines of the field begin.
    fn letter(self) -> u8
        ensures { result ≡ letter_of self }
    {
        match self {
            InfoField::Hashes => b'C',
            InfoField::Name => b'P',
            InfoField::Version => b'V',
            InfoField::Arch => b'A',
            InfoField::Description => b'T',
            InfoField::Url => b'U',
            InfoField::License => b'L',
            InfoField::Origin => b'o',
            InfoField::Maintainer => b'm',
            // Each line of the field begins with this letter.
            InfoField::InstalledSize => b'I',
            InfoField::BuildTime => b't',
            InfoField::ProviderPriority => b'k',
            InfoField::ReplacesPriority => b'q',
            InfoField::RepoCommit => b'c',
            InfoField::Depends => b'D',
            InfoField::Provides => b'p',
            InfoField::Replaces => b'r',
            InfoField::InstallIf => b'i',
        }
    }

    /// The grammar of the field's values.
    pub(crate) fn grammar(self) -> Grammar
        ensures { result ≡ grammar_of self }
    {
        match self {
            InfoField::Hashes => Grammar::Sha1Text,
            InfoField::Name => Grammar::PackageName,
            InfoField::Version => Grammar::PackageVersion,
            InfoField::Arch
            | InfoField::Description
            | InfoField::Url
            | InfoField::License
            | InfoField::Origin
            | InfoField::Maintainer => Grammar::AnyText,
            InfoField::InstalledSize
            | InfoField::BuildTime
            | InfoField::ProviderPriority
            | InfoField::ReplacesPriority => Grammar::Number,
            InfoField::RepoCommit => Grammar::Commit,
            InfoField::Depends | InfoField::Provides | InfoField::Replaces | InfoField::InstallIf =>
                Grammar::Dependencies,
        }
    }

    /// Whether a record may have several lines of the field, each of which adds to a list.
    pub(crate) fn is_list_info_field(self) -> bool
        ensures { result ≡ is_list_info_field self }
    {
        matches!(
            self,
            InfoField::Depends | InfoField::Provides | InfoField::Replaces | InfoField::InstallIf
        )
    }
}

// The first of some fields whose lines begin with a letter.
fn find_by_letter(fields: &[InfoField], letter: u8) -> Option<InfoField>
    ensures { result ≡ info_field_among fields.now letter }
{
    fields
        .iter()
        .copied()
        .find(|field| field.letter() == letter)
}
