//! Answers questions about the tests of payloads: `shape`, `faults`, `visits`, `many_files` and
//! `rules` (see `Question` in `main.rt`). Of the question `container`, the outcome of the tests is
//! added here. The rules of the tests are in `docs/formats.md`, "Tests of a container", and the
//! words of values in "Values".

use crate::schemas::answer::{add_cause, add_fault, add_int, add_outcome};
use crate::schemas::payloads::{object_payload, payload_of, row_payload, table_of};
use crate::schemas::words::int_of;
use adb_schema::{Checked, Kind, ReadFault, Shaped, Which, fields_of, shape};
use adb_view::{Adb, Val, walk_fields};
use base_core::{Cause, Words};
use row_lines::{Answer, Bytes, word_at};
use std::alloc::{AllocError, Global};

/// The word of the root in these payloads: an object (0xe) at the offset 8, after the head.
const ROOT: u32 = 0xe000_0008;

/// The most visits that a reader of a payload makes, one for each value (`docs/formats.md`, "The
/// shape").
const MOST_VISITS: u32 = 4_194_304;

/// The payload as an object of a table, or the first failed test of its head and of its shape (the
/// types of its values).
pub(crate) fn shaped_of(payload: &[u8], which: Which) -> Result<Shaped<'_>, Cause> {
    shape(Adb::new(payload)?, which)
}

/// Answers `shape TABLE MORE WORD ..`: adds the fault of a payload that is an object with these
/// words, followed by the bytes MORE.
pub(crate) fn add_shape(
    alloc: Global,
    words: &Words,
    answer: &mut Answer,
) -> Result<(), AllocError> {
    let payload = row_payload(alloc, words, word_at(words, 2))?;
    let shaped = shaped_of(&payload, table_of(word_at(words, 1)));
    add_outcome(alloc, shaped.err(), answer);
    Ok(())
}

/// Answers `faults TABLE`: adds for how many fields of the table both faults are reported, a word
/// of another kind and an offset outside of the payload. All fields before the tested one are null.
/// Then it adds the result for two words after the last field, which readers ignore.
pub(crate) fn add_faults(
    alloc: Global,
    table: &[u8],
    answer: &mut Answer,
) -> Result<(), AllocError> {
    let which = table_of(table);
    let fields = fields_of(which);
    let mut reported = 0u64;
    for i in 0..fields.len() {
        if reports_faults(alloc, i, fields[i].kind, which)? {
            reported = reported.saturating_add(1);
        }
    }
    add_int(reported, answer);
    // The integer 1 after the last field, followed by a word without a meaning.
    let found = fault_after(alloc, fields.len(), &[0x1000_0001, 0xffff_ffff], which)?;
    add_outcome(alloc, found, answer);
    Ok(())
}

/// Whether both faults of the field with the index `i`, which has this kind, are reported.
fn reports_faults(alloc: Global, i: usize, kind: Kind, which: Which) -> Result<bool, AllocError> {
    let (misfit, far) = faulty_words(kind);
    let wrong_kind = Some(Cause::WrongKind { word: misfit });
    let outside = Some(Cause::Outside { word: far });
    Ok(
        fault_after(alloc, i, &[misfit], which)? == wrong_kind
            && fault_after(alloc, i, &[far], which)? == outside,
    )
}

/// Two words that are faults in a field of this kind. The kind (top four bits) of the first word is
/// not allowed there: it is a blob for an integer, and otherwise the integer 1. The kind of the
/// second word is allowed, but its offset (the other bits) is outside of every payload in these
/// tests.
fn faulty_words(kind: Kind) -> (u32, u32) {
    match kind {
        Kind::Int => (0x8000_0008, 0x3fff_fff0),
        Kind::Text | Kind::Hash => (0x1000_0001, 0xafff_fff0),
        Kind::Obj(_) => (0x1000_0001, 0xefff_fff0),
        Kind::TextArr | Kind::ObjArr(_) => (0x1000_0001, 0xdfff_fff0),
    }
}

/// The fault of an object of the table `which` whose first `nulls` fields are null, and which has
/// these words after them; None if it has no fault.
fn fault_after(
    alloc: Global,
    nulls: usize,
    words: &[u32],
    which: Which,
) -> Result<Option<Cause>, AllocError> {
    let mut entries = Vec::new(alloc);
    for _ in 0..nulls {
        // The word 0 is NULL.
        entries.push(0)?;
    }
    entries.extend_from_slice(words)?;
    let payload = object_payload(alloc, &entries, b"")?;
    Ok(shaped_of(&payload, which).err())
}

/// Answers `visits TABLE BEFORE WORD ..`: reads an object with these words as fields of the table,
/// after BEFORE earlier visits. Adds how many values were visited, with the earlier ones, or the
/// fault.
pub(crate) fn add_visits(
    alloc: Global,
    words: &Words,
    answer: &mut Answer,
) -> Result<(), AllocError> {
    let payload = row_payload(alloc, words, b"")?;
    let before = int_of(word_at(words, 2));
    match visits_of(&payload, table_of(word_at(words, 1)), before) {
        Ok(visits) => add_int(u64::from(visits), answer),
        Err(cause) => add_cause(alloc, cause, answer),
    }
    Ok(())
}

/// How many values are visited in a payload with this table at its root, with `before` earlier
/// visits added; or the fault.
fn visits_of(payload: &[u8], which: Which, before: u32) -> Result<u32, Cause> {
    // `walk_fields` takes at most this many earlier visits.
    if before > MOST_VISITS {
        return Err(Cause::TooLarge { count: before });
    }
    let adb = Adb::new(payload)?;
    let entries = adb.obj::<3>(Val::of(ROOT))?.entries();
    walk_fields(adb, fields_of(which), before, entries)
}

/// Answers `many_files N`: adds the fault of a package that lists one folder of N files N times.
pub(crate) fn add_many_files(
    alloc: Global,
    count: &[u8],
    answer: &mut Answer,
) -> Result<(), AllocError> {
    let count = int_of(count) % 65_536;
    // The word of the array of folders: an array (0xd) at the offset 40 + 4 * N.
    let folders = 0xd000_0000 + 40 + 4 * count;
    // The package has no information, and these folders.
    let payload = object_payload(alloc, &[0, folders], &lists_of(alloc, count)?)?;
    add_outcome(alloc, shaped_of(&payload, Which::Package).err(), answer);
    Ok(())
}

/// The values of the package of `many_files`, after its object: the folder, the array of its files,
/// and the array of folders.
fn lists_of(alloc: Global, count: u32) -> Result<Vec<u8>, AllocError> {
    let mut lists = Bytes::new(alloc);
    // The folder is at the offset 20: a count of 4, and three words, namely null, null, and the
    // array of its files. This array is at 36, and the array of folders after it.
    lists.push(b"\x04\0\0\0\0\0\0\0\0\0\0\0\x24\0\0\xd0");
    // Each of both arrays has a count of words, which counts itself too, and then its entries. The
    // entry of a file is null, and that of a folder is the object at the offset 20 (0x14).
    for entry in &[0u32, 0xe000_0014] {
        lists.push(&count.saturating_add(1).to_le_bytes());
        for _ in 0..count {
            lists.push(&entry.to_le_bytes());
        }
    }
    lists.finish()
}

/// Answers `rules TABLE VALUE`: adds the first failed test of the value, or `ok` if none failed.
/// The tests are those of its head, of its shape (the types of its values), and of its texts and
/// numbers.
pub(crate) fn add_rule(
    alloc: Global,
    words: &Words,
    answer: &mut Answer,
) -> Result<(), AllocError> {
    // The value is in the words of the row from the word 2 on.
    let payload = payload_of(alloc, words, 2)?;
    let read = match shaped_of(&payload, table_of(word_at(words, 1))) {
        Ok(shaped) => Checked::new(alloc, shaped),
        Err(cause) => Err(ReadFault::Bad(cause)),
    };
    add_read(alloc, read, answer);
    Ok(())
}

/// Adds the first failed test of a read, or `ok`, or that memory ran out.
pub(crate) fn add_read(alloc: Global, read: Result<Checked<'_>, ReadFault>, answer: &mut Answer) {
    match read {
        Ok(_) => answer.add_word(b"ok"),
        Err(fault) => add_fault(alloc, fault, answer),
    }
}
