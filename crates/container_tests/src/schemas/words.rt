//! Answers questions about words (32-bit references) of a payload: `head`, and `word`, which adds
//! the results of the readers of integers, blobs, arrays and objects. The rules are in
//! `docs/formats.md`, "Values".
use crate::schemas::answer::{add_cause, add_int, add_value};
use adb_view::{Adb, Arr, Val};
use base_core::Cause;
use row_lines::{Answer, number_of};
use std::alloc::Global;

/// The number that a word of a row is; 0 if it is no number of 32 bits.
pub(crate) fn int_of(word: &[u8]) -> u32 {
    match number_of(word) {
        Some(number) => u32::try_from(number).unwrap_or(0),
        None => 0,
    }
}

/// Answers `head`: adds the word of the payload's root and whether it is null, or the fault of the
/// payload's head.
pub(crate) fn add_head(alloc: Global, payload: &[u8], answer: &mut Answer) {
    match Adb::new(payload) {
        Ok(adb) if adb.payload() == payload => {
            let root = adb.root();
            add_value(alloc, root, answer);
            answer.add_word(if root.is_null() { b"null" } else { b"root" })
        }
        // This never happens: an `Adb` has the payload of which it was made.
        Ok(_) => answer.add_word(b"another payload"),
        Err(cause) => add_cause(alloc, cause, answer),
    }
}

/// Answers `word W`: adds the results of the four readers (integer, blob, array, object) for the
/// word W. A reader adds nothing if the word is of another kind.
pub(crate) fn add_reads(alloc: Global, payload: &[u8], word: &[u8], answer: &mut Answer) {
    let Ok(adb) = Adb::new(payload) else {
        return answer.add_word(b"no payload");
    };
    let value = Val::of(int_of(word));
    add_scalars(adb, value, answer);
    add_lists(alloc, adb, value, answer)
}

/// Adds the results of the readers of integers and blobs.
fn add_scalars(adb: Adb<'_>, value: Val, answer: &mut Answer) {
    match adb.int(value) {
        Ok(number) => {
            answer.add_word(b"integer");
            add_int(number, answer)
        }
        Err(cause) => add_fault_unless_wrong_kind(cause, value, b"integer", answer),
    }
    match adb.blob(value) {
        Ok(bytes) => {
            answer.add_word(b"blob");
            answer.add_word(bytes)
        }
        Err(cause) => add_fault_unless_wrong_kind(cause, value, b"blob", answer),
    }
}

/// Adds the results of the readers of arrays and objects.
fn add_lists(alloc: Global, adb: Adb<'_>, value: Val, answer: &mut Answer) {
    match adb.arr(value) {
        Ok(found) => add_entries(alloc, found, b"array", answer),
        Err(cause) => add_fault_unless_wrong_kind(cause, value, b"array", answer),
    }
    // The first two fields of the object are read as well.
    match adb.obj::<2>(value) {
        Ok(found) => {
            add_entries(alloc, found.entries(), b"object", answer);
            answer.add_word(b"fields");
            add_value(alloc, found.field(1), answer);
            add_value(alloc, found.field(2), answer)
        }
        Err(cause) => add_fault_unless_wrong_kind(cause, value, b"object", answer),
    }
}

/// Adds `what`, which says what was read, and the words of its entries, or `empty`.
fn add_entries(alloc: Global, found: Arr<'_>, what: &[u8], answer: &mut Answer) {
    answer.add_word(what);
    if found.is_empty() {
        answer.add_word(b"empty");
    }
    for i in 0..found.len() {
        add_value(alloc, found.get(i + 1), answer);
    }
}

/// Adds a fault of the reader of `what`, unless the fault is that the word is of another kind.
fn add_fault_unless_wrong_kind(cause: Cause, value: Val, what: &[u8], answer: &mut Answer) {
    let fault: &[u8] = match cause {
        Cause::WrongKind { word } if word == value.word() => return,
        Cause::Outside { word } if word == value.word() => b"outside",
        _ => b"another fault",
    };
    answer.add_word(what);
    answer.add_word(fault)
}
