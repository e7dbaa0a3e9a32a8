//! Answers questions about `pkg_core`, `package_reader` and `package_verifier`. Some questions are
//! about the contents of one file in pieces, or about a block of contents that names a file. Others
//! are about the front (header and first block) of a package, or about the pieces of all its files
//! in a tree.

ghost use Rattle.std.specs.Prelude.{◌≡◌, IfSome};
ghost use Rattle.adb_schema.specs.Checked.{table_of_checked};
ghost use Rattle.adb_view.specs.declared.tables.Which.TheVariants as Tables;

mod made;
mod package;

use crate::pieces::made::{bytes_of, payload_of, positions, spoil};
use crate::pieces::package::{Asked, Reading, add_asked, add_cuts};
use adb_schema::Checked;
use adb_view::{Adb, Which, shape};
use base_core::{Cause, Words};
use pkg_core::{Part, Walk, open_file};
use row_lines::{Answer, Subject, number_of, value_named, word_at};
use std::alloc::{AllocError, Global};

/// The most bytes of a row's file.
const MOST_BYTES: u128 = 1_000_000;

/// The most pieces of a row's file.
const MOST_PIECES: usize = 100;

/// The length in bytes of the only file of the package that the question `open` is about.
const OPENED: u32 = 3;

/// The kinds of questions; the README of this crate has their answers.
#[derive(Clone, Copy)]
enum Question {
    /// `pieces LEN`, `pieces LEN AT`: the pieces of one file, also with a wrong byte.
    Pieces,
    /// `open FOLDER FILE LEN`: a block of contents that names this file.
    Open,
    /// `cuts BYTES`: the front (header and first block) of a package that is cut off.
    Cuts,
    /// `read`, `spoil` and the other questions about a package with files of some sizes.
    Package(Asked),
}

// The first word of each question.
#[rattlefmt::skip]
const QUESTIONS: [(&[u8], Question); 10] = [
    (b"pieces", Question::Pieces),
    (b"open", Question::Open),
    (b"cuts", Question::Cuts),
    (b"read", Question::Package(Asked::Read)),
    (b"spoil", Question::Package(Asked::Spoil)),
    (b"repeat", Question::Package(Asked::Repeat)),
    (b"shorten", Question::Package(Asked::Shorten)),
    (b"back", Question::Package(Asked::Back)),
    (b"change", Question::Package(Asked::Change)),
    (b"ends", Question::Package(Asked::Ends)),
];

/// The subject of the rows. It keeps nothing: each row has a package of its own.
#[derive(Drop)]
pub(crate) struct Files;

impl Subject for Files {
    /// Answers a question by its first word. Questions are independent of each other.
    fn answer(
        &mut self,
        alloc: Global,
        words: &Words,
        answer: &mut Answer,
    ) -> Result<(), AllocError> {
        match value_named(&QUESTIONS, word_at(words, 0)) {
            Some(Question::Pieces) => add_of_one_file(alloc, false, words, answer),
            Some(Question::Open) => add_of_one_file(alloc, true, words, answer),
            Some(Question::Cuts) => add_cuts(alloc, word_at(words, 1), 0, Reading::Front, answer),
            Some(Question::Package(asked)) => add_asked(alloc, asked, words, answer),
            None => {
                answer.push(b"no question");
                Ok(())
            }
        }
    }
}

/// The number that the word of a row is, but at most `MOST_BYTES`; 0 if the word is no number.
fn small_number(word: &[u8]) -> u32 {
    number_of(word).unwrap_or(0).min(MOST_BYTES) as u32
}

/// The values of the package with this payload; None if a test fails. The contract says that they
/// are those of a package, and not of another table.
fn values(alloc: Global, payload: &[u8]) -> Option<Checked<'_>>
    ensures { IfSome result (λ checked. table_of_checked checked ≡ Tables.Package) }
{
    let Ok(adb) = Adb::new(payload) else {
        return None;
    };
    let Ok(shaped) = shape(adb, Which::Package) else {
        return None;
    };
    Checked::new(alloc, shaped).ok()
}

/// Answers `pieces`, or `open` if `opens` holds. Both are about a package with one file.
fn add_of_one_file(
    alloc: Global,
    opens: bool,
    words: &Words,
    answer: &mut Answer,
) -> Result<(), AllocError> {
    let len = if opens {
        OPENED
    } else {
        small_number(word_at(words, 1))
    };
    let payload = payload_of(alloc, &[len])?;
    let Some(checked) = values(alloc, &payload) else {
        answer.add_word(b"no package");
        return Ok(());
    };
    // The files that the package lists, in their order.
    let mut walk = Walk::new(checked.package().paths());
    if opens {
        add_opened(alloc, &mut walk, words, answer);
        return Ok(());
    }
    add_file(alloc, &mut walk, len, words, answer)
}

/// Answers `pieces LEN` and `pieces LEN AT`: adds the pieces of the next file of the package, which
/// is its only one and has this length. With AT, a byte differs from that of which the digest was
/// made.
fn add_file(
    alloc: Global,
    walk: &mut Walk<'_>,
    len: u32,
    words: &Words,
    answer: &mut Answer,
) -> Result<(), AllocError> {
    let mut bytes = bytes_of(alloc, len)?;
    if words.len() > 2 {
        spoil(&mut bytes, small_number(word_at(words, 2)) as usize);
    }
    add_pieces(alloc, walk, &bytes, answer);
    Ok(())
}

/// Answers `open FOLDER FILE LEN`: adds the result for a block of contents with these positions and
/// this length of its payload. The only file of the package has three bytes. The same block is then
/// opened once more, when no file is expected any more.
fn add_opened(alloc: Global, walk: &mut Walk<'_>, words: &Words, answer: &mut Answer) {
    let positions = positions(
        small_number(word_at(words, 1)),
        small_number(word_at(words, 2)),
    );
    // The payload has at least the eight bytes of the positions.
    let len = number_of(word_at(words, 3)).unwrap_or(0);
    let len = u64::try_from(len).unwrap_or(0).max(8);
    for _ in 0..2 {
        match open_file(walk, len, &positions) {
            Ok(file) => {
                answer.add_word(b"a piece of ");
                answer.add_number(file.next_piece_len() as u128);
            }
            Err(cause) => add_formatted(answer, cause_text(alloc, cause)),
        }
    }
}

/// Adds the pieces of the next file of the package, which is its only one and has these bytes.
fn add_pieces(alloc: Global, walk: &mut Walk<'_>, bytes: &[u8], answer: &mut Answer) {
    // Eight bytes of positions precede the file, which is file 1 of folder 1.
    let len = (bytes.len() as u64).saturating_add(8);
    let mut file = match open_file(walk, len, &positions(1, 1)) {
        Ok(file) => file,
        Err(cause) => return add_formatted(answer, cause_text(alloc, cause)),
    };
    // The bytes of the file that are not taken yet.
    let mut rest = bytes;
    for _ in 0..MOST_PIECES {
        let len = file.next_piece_len();
        if len > rest.len() {
            return answer.add_word(b"too few bytes");
        }
        match file.take(&rest[..len]) {
            Ok((part, further)) => {
                add_formatted(answer, part_text(alloc, part, len));
                let Some(further) = further else {
                    return answer.add_word(b"end");
                };
                file = further;
                rest = &rest[len..];
            }
            Err(cause) => return add_formatted(answer, cause_text(alloc, cause)),
        }
    }
}

/// Adds to `answer` a text that was formatted, and a space before the text if the answer is not
/// empty.
fn add_formatted(answer: &mut Answer, text: Result<String, AllocError>) {
    answer.add_word(b"");
    answer.add_text(text)
}

/// The positions of the folder and the file that a piece belongs to, and the length of the piece;
/// and `last` if it is the last piece of the file.
fn part_text(alloc: Global, part: Part, len: usize) -> Result<String, AllocError> {
    let last = if part.last { " last" } else { "" };
    format!(in alloc; "{}.{} {len}{last}", part.path, part.file)
}

/// The cause of a refusal: its variant and its fields; for a wrong digest only the words `another
/// digest`.
fn cause_text(alloc: Global, cause: Cause) -> Result<String, AllocError> {
    match cause {
        Cause::HashDiffers { .. } => format!(in alloc; "another digest"),
        _ => format!(in alloc; "{cause:?}"),
    }
}
