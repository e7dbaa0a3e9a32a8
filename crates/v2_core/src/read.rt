//! Reads a text database line by line, and writes each package at the end of its record; or returns
//! why the text is refused.
//! The rules are in `docs/formats.md`, "Text database of version 2".

ghost use Rattle.std.specs.Prelude.{◌≡◌, ◌<◌, ◌-◌, ◌∷◌, IfErr, IfOk, List, None, OnOk, Ok, Result, ℕ, Err};
ghost use Rattle.base_core.specs.declared.cause.Cause.TheVariants.{TextLine};
ghost use Rattle.adb_schema.specs.ReadFaults.{IsReadFault};
ghost use Rattle.v2_core.specs.declared.read.V2Fault.TheVariants.{Bad};
ghost use Rattle.adb_schema.specs.Soundness.{payload_fault};
ghost use Rattle.adb_view.specs.declared.tables.Which.TheVariants as Tables;
ghost use Rattle.v2_core.specs.Payload.{IsV2Fault, payload_of_text, untested_payload_of_records};
ghost use Rattle.v2_core.specs.Reading.{records_from_record_end, records_from_unfinished_record, records_of};
ghost use Rattle.v2_core.specs.Records.{Record as RecordModel, empty_record};
ghost use Rattle.v2_core.specs.Writing.{IsLineFault, draft_with_database, draft_with_records};
ghost use Rattle.dep_core.specs.World.{lines_of};
ghost use Rattle.v2_core.specs.FirstBadLine.{IsNumberOfReportedBadLine};
ghost use Rattle.v2_core.specs.Spelling.{SpellsText};

use crate::record::Record;
use crate::writing::write_package;
use adb_schema::{Checked, ReadFault, Which, repeated, shape};
use adb_view::Adb;
use base_core::Cause;
use make_info::{Draft, WriteFault};
use std::alloc::{AllocError, Global};
use thiserror::Error;

/// Reads a text database (`lib/apk/db/installed` of apk-tools 2): returns the payload of the
/// installed database.
///
/// # Errors
///
/// `Bad` with the cause `TextLine` and the number of the first bad line, counted from 1; otherwise
/// `TooLarge`, if the payload exceeds a limit of the writer; otherwise `Bad` with the first test of
/// an installed database that the payload fails. Or `Memory`.
#[tactic(auto, unfolding(crate::specs::Payload::payload_of_text))]
pub fn read_v2(alloc: Global, bytes: &[u8]) -> Result<Vec<u8>, V2Fault>
    // On Ok, the payload is the one that the definition gives for the text.
    ensures ok { IfOk result (λ payload. payload_of_text bytes.now ≡ Ok payload.items) }
    // An error is the one that the definition gives for the text, or out of memory.
    ensures err { IfErr result (λ fault. IsV2Fault fault (payload_of_text bytes.now)) }
{
    let payload = write_payload(alloc, bytes)?;
    match check_database(alloc, &payload) {
        Ok(()) => Ok(payload),
        Err(ReadFault::Bad(cause)) => Err(V2Fault::Bad(cause)),
        Err(ReadFault::Memory) => Err(V2Fault::Memory),
    }
}

// Tests a payload as that of an installed database.
fn check_database(alloc: Global, payload: &[u8]) -> Result<(), ReadFault>
    // The error is the first failed test, or out of memory.
    ensures bad { IfErr result
        (λ fault. IsReadFault fault (payload_fault Tables.Idb payload.now)) }
    // On Ok, the payload passes all tests of a database.
    ensures sound { OnOk result (payload_fault Tables.Idb payload.now ≡ None) }
{
    let adb = Adb::new(payload)?;
    let shaped = shape(adb, Which::Idb)?;
    let checked = Checked::new(alloc, shaped)?;
    match repeated(alloc, &checked)? {
        Some(cause) => Err(ReadFault::Bad(cause)),
        None => Ok(()),
    }
}

// Writes the payload of the database that a text describes; the payload is not tested here.
fn write_payload(alloc: Global, bytes: &[u8]) -> Result<Vec<u8>, V2Fault>
    // On Ok, the payload is that of the text's records.
    ensures ok { IfOk result
        (λ payload. untested_payload_of_records (records_of bytes.now) ≡ Ok payload.items) }
    // An error is the one that the definition gives for these records, or out of memory.
    ensures err { IfErr result (λ fault. IsV2Fault fault (untested_payload_of_records
        (records_of bytes.now))) }
{
    let mut draft = Draft::new(alloc);
    write_database(alloc, &mut draft, bytes)?;
    match draft.finish() {
        Ok(payload) => Ok(payload),
        Err(WriteFault::TooLarge { bytes, values }) => Err(V2Fault::TooLarge { bytes, values }),
        Err(WriteFault::Memory) => Err(V2Fault::Memory),
    }
}

// Adds the database that a text describes to a draft.
fn write_database(alloc: Global, draft: &mut Draft, bytes: &[u8]) -> Result<(), V2Fault>
    // On Ok, the database of the text's records is added to the draft.
    ensures ok { OnOk result
        (draft_with_database (records_of bytes.now) draft.old ≡ Ok draft.new) }
    // An error is the first bad line, or out of memory.
    ensures bad { IfErr result (λ fault. IsLineFault fault (records_of bytes.now)) }
{
    // The object of the database, and in it the array of packages.
    draft.open_list()?;
    draft.open_list()?;
    write_packages(alloc, draft, bytes)?;
    draft.close_array()?;
    draft.close_object()?;
    Ok(())
}

// Adds the packages that a text describes to a draft, each at the end of its record.
#[tactic(auto, unfolding(crate::specs::Reading::records_of))]
fn write_packages(alloc: Global, draft: &mut Draft, bytes: &[u8]) -> Result<(), V2Fault>
    // On Ok, the packages of the text's records are added to the draft.
    ensures ok { OnOk result (draft_with_records (records_of bytes.now) draft.old ≡ Ok draft.new) }
    // An error is the first bad line, or out of memory.
    ensures bad { IfErr result (λ fault. IsLineFault fault (records_of bytes.now)) }
{
    let mut record = Record::new(alloc);
    // The number of the last line that was read, counted from 1.
    let mut number = 0;
    for line in bytes.split(|byte| *byte == b'\n') {
        number += 1;
        add_line(draft, &mut record, line, number)?;
    }
    // The end of the text ends the last record.
    write_record(draft, &record, number)
}

// Reads the line with this number, counted from 1: an empty line ends the record, any other line
// belongs to the record. The clauses hold for any lines that follow (`rest`).
fn add_line<'a>(
    draft: &mut Draft,
    text_record: &mut Record<'a>,
    line: &'a [u8],
    number: u64,
) -> Result<(), V2Fault>
    // Lines are numbered from 1.
    requires { 0 < number }
    // On Ok, the line is read: to read the lines that follow, from the new record on, gives the
    // same packages as to read this line and them from the old record on.
    ensures ok { OnOk result ((rest : List (List ℕ))
        → draft_with_records (records_from_unfinished_record number text_record.new rest) draft.new
        ≡ draft_with_records (records_from_unfinished_record (number - 1) text_record.old
        (line.entry.now ∷ rest))
        draft.old) }
    // An error is the first bad line, whatever lines follow, or out of memory.
    ensures bad { IfErr result (λ fault. (rest : List (List ℕ))
        → IsLineFault fault (records_from_unfinished_record (number - 1) text_record.old
        (line.entry.now ∷ rest))) }
{
    if line.is_empty() {
        return end_record(draft, text_record, number - 1);
    }
    if !text_record.add_text(line)? {
        return Err(bad_line(number));
    }
    Ok(())
}

// Ends a record, and begins a new one. `lines` is the number of lines of the text up to the end of
// the record. The clauses hold for any records that follow (`others`).
fn end_record(draft: &mut Draft, text_record: &mut Record<'_>, lines: u64) -> Result<(), V2Fault>
    // On Ok, the new record has no line yet.
    ensures new { OnOk result (text_record.new ≡ empty_record) }
    // On Ok, the package of the record is added to the draft, if the record has a line.
    ensures ok { OnOk result ((others : Result (List RecordModel) ℕ)
        → draft_with_records others draft.new
        ≡ draft_with_records (records_from_record_end lines text_record.old others) draft.old) }
    // An error is the first bad line, or out of memory.
    ensures bad { IfErr result (λ fault. (others : Result (List RecordModel) ℕ)
        → IsLineFault fault (records_from_record_end lines text_record.old others)) }
{
    write_record(draft, text_record, lines)?;
    text_record.clear();
    Ok(())
}

// Adds the package of a record to a draft; a record without a line is no record. `lines` is the
// number of lines of the text up to the end of the record. The clauses hold for any records that
// follow (`others`).
fn write_record(draft: &mut Draft, text_record: &Record<'_>, lines: u64) -> Result<(), V2Fault>
    // On Ok, the package of the record is added to the draft, if the record has a line.
    ensures ok { OnOk result ((others : Result (List RecordModel) ℕ)
        → draft_with_records others draft.new
        ≡ draft_with_records (records_from_record_end lines text_record.now others) draft.old) }
    // An error is the first bad line, or out of memory.
    ensures bad { IfErr result (λ fault. (others : Result (List RecordModel) ℕ)
        → IsLineFault fault (records_from_record_end lines text_record.now others)) }
{
    if !text_record.has_line() {
        return Ok(());
    }
    if text_record.lacks_name_or_version_line() {
        return Err(bad_line(lines));
    }
    write_package(draft, text_record)?;
    Ok(())
}

// The fault that the line with this number, counted from 1, is bad.
fn bad_line(line: u64) -> V2Fault
    ensures { result ≡ Bad (TextLine line) }
{
    V2Fault::Bad(Cause::TextLine { line })
}

/// Why a text database is refused.
#[derive(Clone, Copy, Debug, PartialEq, Eq, Drop, Error)]
pub enum V2Fault {
    /// The first bad line; or the first test of an installed database that the payload fails.
    #[error("bad text database")]
    Bad(Cause),
    /// The payload would exceed a limit of the writer. The counts are those just after the value
    /// that exceeds it: the payload's bytes, and its values with the root.
    #[error("a payload of {bytes} bytes and {values} values is too large")]
    TooLarge { bytes: u64, values: u64 },
    /// Out of memory.
    #[error("out of memory")]
    Memory,
}

impl From<AllocError> for V2Fault {
    ghost use Rattle.std.specs.Prelude.{◌≡◌};
    ghost use Rattle.v2_core.specs.declared.read.V2Fault.TheVariants.{Memory};

    // The fault is `Memory`.
    ghost from_gives = { λ _ fault. fault ≡ Memory };

    /// Out of memory, as the reason why a text is refused.
    fn from(_: AllocError) -> V2Fault {
        V2Fault::Memory
    }
}

impl From<Cause> for V2Fault {
    ghost use Rattle.std.specs.Prelude.{◌≡◌};
    ghost use Rattle.v2_core.specs.declared.read.V2Fault.TheVariants.{Bad};

    // The fault has this cause.
    ghost from_gives = { λ cause fault. fault ≡ Bad cause };

    /// A failed test, as the reason why a text is refused.
    fn from(cause: Cause) -> V2Fault {
        V2Fault::Bad(cause)
    }
}

/// A law: if a text is refused for a line, the lines up to this one are refused with its number in
/// each text in which their last record ends there. Any smaller number of them begins a text that
/// is accepted.
pub fn the_reported_line_is_the_first_that_no_text_has()
    ensures { (text : List ℕ) (number : ℕ) → records_of text ≡ Err number
        → IsNumberOfReportedBadLine (lines_of text) number }
{}

/// A law: a text that is the text of some records is read as these records. So a text is that of
/// only one list of records.
pub fn the_text_of_records_is_read_back()
    // A text of some records is read as these records.
    ensures back { (text : List ℕ) (records : List RecordModel)
        → SpellsText text records → records_of text ≡ Ok records }
    // A text is that of only one list of records.
    ensures one { (text : List ℕ) (records others : List RecordModel)
        → SpellsText text records → SpellsText text others → records ≡ others }
{}
