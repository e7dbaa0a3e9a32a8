//! The texts of refusals and causes, as lists of pieces that `lines` writes. The rules are in
//! `docs/commands.md`, "Error lines": the table of refusals, and the table of causes.
ghost use Rattle.std.specs.Prelude.{◌≡◌, ◌++◌};
ghost use Rattle.report_core.specs.Pieces.{piece_text, pieces_text, sentence_text};
ghost use Rattle.report_core.specs.Texts.{cause_text, package_field_value_text_by_number, refusal_text_of_word_place_and_reason, refusal_text, script_name};

use crate::lines::Piece::{Bytes, Digest, Hex, HexNumber, Nothing, Number, Position};
use crate::lines::{Piece, Pieces};
use crate::numbers::{
    HASHES_FIELD, POST_DEINSTALL_SCRIPT, POST_INSTALL_SCRIPT, POST_UPGRADE_SCRIPT,
    PRE_DEINSTALL_SCRIPT, PRE_INSTALL_SCRIPT, PRE_UPGRADE_SCRIPT, TRIGGER_SCRIPT,
};
use crate::refusal::Refusal;
use base_core::Cause;

/// The text of a refusal: some pieces, and then the text of its cause, if it has one.
#[derive(Clone, Copy)]
pub(crate) struct Sentence<'a> {
    /// The pieces of the text before the cause.
    pub(crate) pieces: Pieces<'a>,
    /// The cause whose text follows the pieces; None if the refusal has no cause.
    pub(crate) cause: Option<Cause>,
}

// The list for a text of one piece: the other six have no text.
fn one<'a>(a: Piece<'a>) -> Pieces<'a>
    ensures { pieces_text result ≡ piece_text a.entry }
{
    [a, Nothing, Nothing, Nothing, Nothing, Nothing, Nothing]
}

// The list for a text of two pieces: the other five have no text.
fn two<'a>(a: Piece<'a>, b: Piece<'a>) -> Pieces<'a>
    ensures { pieces_text result ≡ piece_text a.entry ++ piece_text b.entry }
{
    [a, b, Nothing, Nothing, Nothing, Nothing, Nothing]
}

// The list for a text of three pieces: the other four have no text.
fn three<'a>(a: Piece<'a>, b: Piece<'a>, c: Piece<'a>) -> Pieces<'a>
    ensures { pieces_text result ≡ piece_text a.entry ++ piece_text b.entry ++ piece_text c.entry }
{
    [a, b, c, Nothing, Nothing, Nothing, Nothing]
}

// The list for a text of four pieces: the other three have no text.
fn four<'a>(a: Piece<'a>, b: Piece<'a>, c: Piece<'a>, d: Piece<'a>) -> Pieces<'a>
    ensures { pieces_text result ≡ piece_text a.entry ++ piece_text b.entry
        ++ piece_text c.entry ++ piece_text d.entry }
{
    [a, b, c, d, Nothing, Nothing, Nothing]
}

// The list for a text of five pieces: the other two have no text.
fn five<'a>(a: Piece<'a>, b: Piece<'a>, c: Piece<'a>, d: Piece<'a>, e: Piece<'a>) -> Pieces<'a>
    ensures { pieces_text result ≡ piece_text a.entry ++ piece_text b.entry
        ++ piece_text c.entry ++ piece_text d.entry ++ piece_text e.entry }
{
    [a, b, c, d, e, Nothing, Nothing]
}

// The list for a text of six pieces: the last one has no text.
fn six<'a>(
    a: Piece<'a>,
    b: Piece<'a>,
    c: Piece<'a>,
    d: Piece<'a>,
    e: Piece<'a>,
    f: Piece<'a>,
) -> Pieces<'a>
    ensures { pieces_text result ≡ piece_text a.entry ++ piece_text b.entry
        ++ piece_text c.entry ++ piece_text d.entry ++ piece_text e.entry ++ piece_text f.entry }
{
    [a, b, c, d, e, f, Nothing]
}

// The list for a text of seven pieces, the most that a refusal needs.
fn seven<'a>(
    a: Piece<'a>,
    b: Piece<'a>,
    c: Piece<'a>,
    d: Piece<'a>,
    e: Piece<'a>,
    f: Piece<'a>,
    g: Piece<'a>,
) -> Pieces<'a>
    ensures { pieces_text result ≡ piece_text a.entry ++ piece_text b.entry
        ++ piece_text c.entry ++ piece_text d.entry ++ piece_text e.entry ++ piece_text f.entry
        ++ piece_text g.entry }
{
    [a, b, c, d, e, f, g]
}

// The text of a refusal without a cause.
fn plain<'a>(pieces: Pieces<'a>) -> Sentence<'a>
    ensures { sentence_text result ≡ pieces_text pieces.entry }
{
    Sentence {
        pieces,
        cause: None,
    }
}

// The text of a refusal, followed by the text of its cause.
fn caused<'a>(pieces: Pieces<'a>, cause: Cause) -> Sentence<'a>
    ensures { sentence_text result ≡ pieces_text pieces.entry ++ cause_text cause }
{
    Sentence {
        pieces,
        cause: Some(cause),
    }
}

// The text `word PLACE: TEXT`, for a refusal of the word at this place of the command line.
fn at_word(place: u32, text: &'static [u8]) -> Sentence<'static>
    ensures { sentence_text result ≡ refusal_text_of_word_place_and_reason place text.now }
{
    plain(four(
        Bytes(b"word "),
        Number(u64::from(place)),
        Bytes(b": "),
        Bytes(text),
    ))
}

// The text of a refusal: its pieces and its cause.
pub(crate) fn sentence_of<'a>(refusal: &'a Refusal) -> Sentence<'a>
    ensures { sentence_text result ≡ refusal_text refusal.now }
{
    // Each text is that of a row in the table of refusals. `caused` appends the text of the cause.
    match refusal {
        Refusal::Usage { place } => plain(two(
            Bytes(b"usage error at word "),
            Number(u64::from(*place)),
        )),
        Refusal::IntentBad { cause } => caused(one(Bytes(b"lib/apk/intent: ")), *cause),
        Refusal::FileMissing { place } => at_word(*place, b"no such file"),
        Refusal::FileBad { place, cause } => caused(
            three(Bytes(b"word "), Number(u64::from(*place)), Bytes(b": ")),
            *cause,
        ),
        Refusal::TextBad { place, line } => plain(four(
            Bytes(b"word "),
            Number(u64::from(*place)),
            Bytes(b": bad line "),
            Number(*line),
        )),
        Refusal::VersionBad { place } => at_word(*place, b"invalid version"),
        Refusal::InfoBad { place } => at_word(*place, b"invalid package information"),
        Refusal::NoDatabase => plain(one(Bytes(b"no package database"))),
        Refusal::DatabaseBad { cause } => caused(one(Bytes(b"package database: ")), *cause),
        Refusal::WorldBad { line } => plain(two(Bytes(b"etc/apk/world: line "), Number(*line))),
        Refusal::RepositoriesBad { line } => plain(two(
            Bytes(b"etc/apk/repositories: line "),
            Number(*line),
        )),
        Refusal::Untrusted => plain(one(Bytes(b"repositories need --allow-untrusted"))),
        Refusal::IndexMissing { repository } => plain(three(
            Bytes(b"repository "),
            Number(*repository),
            Bytes(b": no such index"),
        )),
        Refusal::IndexBad { repository, cause } => caused(
            three(Bytes(b"repository "), Number(*repository), Bytes(b": ")),
            *cause,
        ),
        Refusal::TooMany { count } => plain(two(
            Number(*count),
            Bytes(b" candidates are too many"),
        )),
        Refusal::NotInstalled { place } => at_word(*place, b"not installed"),
        Refusal::Unsatisfied => plain(one(Bytes(b"unable to select packages"))),
        Refusal::PackageMissing { name, version } => plain(four(
            Bytes(name.as_bytes()),
            Bytes(b"-"),
            Bytes(version.as_bytes()),
            Bytes(b": no such package file"),
        )),
        Refusal::PackageBad {
            name,
            version,
            cause,
        } => caused(
            four(
                Bytes(name.as_bytes()),
                Bytes(b"-"),
                Bytes(version.as_bytes()),
                Bytes(b": "),
            ),
            *cause,
        ),
        Refusal::PackageDiffers {
            name,
            version,
            field,
            wanted,
            found,
        } => plain(seven(
            Bytes(name.as_bytes()),
            Bytes(b"-"),
            Bytes(version.as_bytes()),
            Bytes(b": differs from its index: "),
            field_piece(*field, wanted.as_bytes()),
            Bytes(b", "),
            field_piece(*field, found.as_bytes()),
        )),
        Refusal::ScriptNeeded { name, script } => plain(four(
            Bytes(name.as_bytes()),
            Bytes(b": script "),
            script_piece(*script),
            Bytes(b" needs --no-scripts"),
        )),
        Refusal::Reserved { path } => plain(two(Bytes(path.as_bytes()), Bytes(b": reserved name"))),
        Refusal::PathClash { path, other } => plain(three(
            Bytes(path.as_bytes()),
            Bytes(b": is a folder of "),
            Bytes(other.as_bytes()),
        )),
        Refusal::Owned {
            path,
            first,
            second,
        } => plain(six(
            Bytes(path.as_bytes()),
            Bytes(b": "),
            Bytes(first.as_bytes()),
            Bytes(b" and "),
            Bytes(second.as_bytes()),
            Bytes(b" both have it"),
        )),
        Refusal::TriggerNeeded { name } => plain(two(
            Bytes(name.as_bytes()),
            Bytes(b": its trigger needs --no-scripts"),
        )),
        Refusal::ResultTooLarge { bytes, values } => plain(five(
            Bytes(b"result too large: "),
            Number(*bytes),
            Bytes(b" bytes, "),
            Number(*values),
            Bytes(b" values"),
        )),
    }
}

// The pieces of the text of a cause.
pub(crate) fn cause_pieces(cause: Cause) -> Pieces<'static>
    ensures { pieces_text result ≡ cause_text cause }
{
    // Each text is that of a row in the table of causes.
    match cause {
        Cause::NotAdb => one(Bytes(b"not an ADB file")),
        Cause::Compressed => one(Bytes(b"compressed ADB file")),
        Cause::Truncated { at } => two(Bytes(b"truncated at "), Number(at)),
        Cause::BlockOrder { at } => two(Bytes(b"block out of order at "), Number(at)),
        Cause::CompatVersion => one(Bytes(b"incompatible version")),
        Cause::WrongSchema { found } => two(Bytes(b"wrong schema "), HexNumber(found)),
        Cause::Outside { word } => three(
            Bytes(b"value "),
            HexNumber(word),
            Bytes(b" points outside"),
        ),
        Cause::WrongKind { word } => three(
            Bytes(b"value "),
            HexNumber(word),
            Bytes(b" has the wrong kind"),
        ),
        Cause::TooLarge { count } => two(Number(u64::from(count)), Bytes(b" values are too many")),
        Cause::BadText { place } => two(Bytes(b"bad field "), Number(u64::from(place))),
        Cause::Repeated {
            place,
            first,
            second,
        } => six(
            Bytes(b"field "),
            Number(u64::from(place)),
            Bytes(b" repeated at "),
            Number(u64::from(first)),
            Bytes(b" and "),
            Number(u64::from(second)),
        ),
        Cause::DataOrder { expected, found } => five(
            Bytes(b"contents "),
            Position(u64::from(found.0), u64::from(found.1)),
            Bytes(b" where "),
            Position(u64::from(expected.0), u64::from(expected.1)),
            Bytes(b" was expected"),
        ),
        Cause::DataSize { wanted, found } => five(
            Bytes(b"contents of "),
            Number(found),
            Bytes(b" bytes where "),
            Number(wanted),
            Bytes(b" were expected"),
        ),
        Cause::HashDiffers { wanted, found } => five(
            Bytes(b"hash "),
            Digest(found),
            Bytes(b" where "),
            Digest(wanted),
            Bytes(b" was expected"),
        ),
        Cause::TextLine { line } => two(Bytes(b"bad line "), Number(line)),
    }
}

// The piece with the value `bytes` of the field with this number in a package's information: the id
// in hexadecimal digits, the name or the version as it is.
fn field_piece(field: u16, bytes: &[u8]) -> Piece<'_>
    ensures { piece_text result ≡ package_field_value_text_by_number field bytes.now }
{
    if field == HASHES_FIELD {
        Hex(bytes)
    } else {
        Bytes(bytes)
    }
}

// The piece with the name of the script that has this number; a number of no script is printed.
fn script_piece(script: u16) -> Piece<'static>
    ensures { piece_text result ≡ script_name script }
{
    match script {
        TRIGGER_SCRIPT => Bytes(b"trigger"),
        PRE_INSTALL_SCRIPT => Bytes(b"pre-install"),
        POST_INSTALL_SCRIPT => Bytes(b"post-install"),
        PRE_DEINSTALL_SCRIPT => Bytes(b"pre-deinstall"),
        POST_DEINSTALL_SCRIPT => Bytes(b"post-deinstall"),
        PRE_UPGRADE_SCRIPT => Bytes(b"pre-upgrade"),
        POST_UPGRADE_SCRIPT => Bytes(b"post-upgrade"),
        _ => Number(u64::from(script)),
    }
}
