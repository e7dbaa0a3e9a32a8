//! Adds words to an answer that only the answers of this program have. A space precedes each word,
//! unless the answer was empty: the empty word that is added first adds this space.
use adb_schema::ReadFault;
use adb_view::Val;
use base_core::Cause;
use row_lines::Answer;
use std::alloc::{AllocError, Global};

/// Adds a word: a number in decimal digits.
pub(crate) fn add_int(number: u64, answer: &mut Answer) {
    answer.add_word(b"");
    answer.add_number(u128::from(number))
}

/// Adds a word (32-bit reference) of a payload in eight hexadecimal digits.
pub(crate) fn add_value(alloc: Global, value: Val, answer: &mut Answer) {
    let word = value.word();
    answer.add_word(b"");
    answer.add_text(format!(in alloc; "{word:08x}"))
}

/// Adds the cause of a failed test, as its variant and its fields.
pub(crate) fn add_cause(alloc: Global, cause: Cause, answer: &mut Answer) {
    answer.add_word(b"");
    answer.add_text(format!(in alloc; "{cause:?}"))
}

/// Adds the cause of a failed test, or `ok` if there is none.
pub(crate) fn add_outcome(alloc: Global, found: Option<Cause>, answer: &mut Answer) {
    match found {
        Some(cause) => add_cause(alloc, cause, answer),
        None => answer.add_word(b"ok"),
    }
}

/// Adds why a read failed: the cause of a failed test, or that memory ran out.
pub(crate) fn add_fault(alloc: Global, fault: ReadFault, answer: &mut Answer) {
    match fault {
        ReadFault::Bad(cause) => add_cause(alloc, cause, answer),
        ReadFault::Memory => answer.add_text(Err(AllocError)),
    }
}
