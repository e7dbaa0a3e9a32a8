//! Makes the text databases that rows describe, and answers what a row asks of a database. The
//! rules are in `docs/formats.md`, "Text database of version 2".
use crate::add_made;
use crate::text_databases::Question;
use adb_dump::dump;
use adb_schema::{Checked, Which, shape};
use adb_view::Adb;
use base_core::{Cause, Words};
use row_lines::{Answer, Bytes, number_of, word_at};
use std::alloc::{AllocError, Global};
use v2_core::V2Fault;

/// The text of `read_repeated FRONT N PART BACK`: FRONT, then N times PART, and then BACK. Of `read
/// TEXT`, which has no further words, it is TEXT.
pub(crate) fn repeated_text(alloc: Global, words: &Words) -> Result<Vec<u8>, AllocError> {
    let mut text = Bytes::new(alloc);
    text.push(word_at(words, 1));
    for _ in 0..number_of(word_at(words, 2)).unwrap_or(0) {
        text.push(word_at(words, 3));
    }
    text.push(word_at(words, 4));
    text.finish()
}

/// A text database with as many records as the word `count` says, each of which has a name and a
/// version.
pub(crate) fn packages_text(alloc: Global, count: &[u8]) -> Result<Vec<u8>, AllocError> {
    let mut text = Bytes::new(alloc);
    for i in 0..number_of(count).unwrap_or(0) {
        text.push_text(format!(in alloc; "P:p{i}\nV:{i}\n\n"));
    }
    text.finish()
}

/// Adds what a question asks of the database in a payload: its dump, or how many packages it has.
pub(crate) fn add_database(alloc: Global, question: Question, payload: &[u8], answer: &mut Answer) {
    let Ok(adb) = Adb::new(payload) else {
        answer.push(b"no payload");
        return;
    };
    let Ok(shaped) = shape(adb, Which::Idb) else {
        answer.push(b"no database");
        return;
    };
    match question {
        Question::Read => add_made(dump(alloc, &shaped), answer),
        Question::CountPackages => match Checked::new(alloc, shaped) {
            Ok(checked) => answer.add_number(checked.idb().packages().len() as u128),
            Err(_) => answer.push(b"no database"),
        },
    }
}

/// Adds why a text database is refused: the number of the first bad line, the name and the fields
/// of another cause, or the counts of a database that is too large.
pub(crate) fn add_fault(alloc: Global, fault: V2Fault, answer: &mut Answer) {
    answer.add_text(match fault {
        V2Fault::Bad(Cause::TextLine { line }) => format!(in alloc; "bad line {line}"),
        V2Fault::Bad(cause) => format!(in alloc; "{cause:?}"),
        V2Fault::TooLarge { bytes, values } => format!(in alloc;
            "{bytes} bytes and {values} values are too many"
        ),
        V2Fault::Memory => Err(AllocError),
    })
}
