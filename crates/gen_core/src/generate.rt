//! The container of a dump text, and why there is none.
//! The rules are in `docs/formats.md`, "Dump text" and "Canonical layout".

ghost use Rattle.std.specs.Prelude.{◌≡◌, IfErr, IfOk, OnOk, Ok, Err, Some, None};
ghost use Rattle.gen_core.specs.declared.generate.GenFault.TheVariants.{Bad};
ghost use Rattle.gen_core.specs.Cursors.{cursor_after_line};
ghost use Rattle.gen_core.specs.Generated.{IsGenFault, dumped_root, generated_file, table_of_line, whole_lines_and_rest, schema_word_or_zero};
ghost use Rattle.gen_core.specs.Reads.{IsTextFault, fault_of_writer, has_rest, table_and_draft_of_root, table_read};

use crate::cursor::Cursor;
use crate::read::read_root;
use adb_dump::{Which, header_schema_if_root_table};
use adb_values::{Draft, WriteFault, file_of};
use std::alloc::{AllocError, Global};
use thiserror::Error;

/// The container for which `adbdump` prints `text`. It has the canonical layout, and no contents of
/// files. Rules of texts, such as that of versions, are not tested.
///
/// # Errors
///
/// `Bad` with the number of the first line that no dump text has after the lines before it; else
/// `TooLarge`, if the payload passes a limit of the writer. Or `Memory`.
pub fn gen_(alloc: Global, text: &[u8]) -> Result<Vec<u8>, GenFault>
    // On Ok, the file is the container of the text.
    ensures ok { IfOk result (λ file. generated_file text.now ≡ Ok file.items) }
    // An error is the one that the definition gives for this text, or out of memory.
    ensures err { IfErr result (λ fault. IsGenFault fault (generated_file text.now)) }
{
    let mut draft = Draft::new(alloc);
    let which = read_text(alloc, &mut draft, text)?;
    match draft.finish() {
        Ok(payload) => Ok(file_of(alloc, schema_word_or_zero(which), &payload)?),
        Err(fault) => Err(fault_of_writer(fault)),
    }
}

/// Why a writer gave no payload, as a fault of generating.
fn fault_of_writer(fault: WriteFault) -> GenFault
    ensures { result ≡ fault_of_writer fault }
{
    match fault {
        WriteFault::TooLarge { bytes, values } => GenFault::TooLarge { bytes, values },
        WriteFault::Memory => GenFault::Memory,
    }
}

/// Reads a dump text: adds the value of its root to the draft, and returns the table of the root.
fn read_text(alloc: Global, draft: &mut Draft, text: &[u8]) -> Result<Which, GenFault>
    // On Ok, the draft gets the value of the root, and the result is its table.
    ensures ok { IfOk result (λ which. table_and_draft_of_root (dumped_root text.now) draft.old
        ≡ Ok (which, draft.new)) }
    // An error is the first bad line, or out of memory.
    ensures err { IfErr result (λ fault. IsTextFault fault
        (table_and_draft_of_root (dumped_root text.now) draft.old)) }
{
    let mut cursor = Cursor::new(text);
    let which = read_table(&mut cursor)?;
    read_root(alloc, draft, &mut cursor, which)?;
    // Bytes after the last line end are a line without its end, which is bad.
    if has_rest(text) {
        return Err(cursor.bad_line());
    }
    Ok(which)
}

/// Reads the first line of a text, which names the table of its root.
fn read_table(cursor: &mut Cursor<'_>) -> Result<Which, GenFault>
    // No indentation of the first line was read.
    requires { cursor.old.levels ≡ 0 }
    // On Ok, the result is the table that the first line names.
    ensures ok { IfOk result (λ which. table_read cursor.old.lines ≡ Some which) }
    // On Ok, the cursor is after the first line.
    ensures next { OnOk result (cursor.new ≡ cursor_after_line cursor.old.lines cursor.old) }
    // An error is the first line, which names no table.
    ensures err { IfErr result (λ fault. (fault ≡ Bad cursor.old.number)
        × (table_read cursor.old.lines ≡ None)) }
{
    let Some(line) = cursor.at_depth(0) else {
        return Err(cursor.bad_line());
    };
    let Some(which) = table_of_line(line) else {
        return Err(cursor.bad_line());
    };
    cursor.turn();
    Ok(which)
}

/// Whether a text has bytes after its last line end.
#[tactic(auto, using(crate::proofs::TextLines::rest_some))]
fn has_rest(text: &[u8]) -> bool
    ensures { result ≡ has_rest (whole_lines_and_rest text.now).1 }
{
    match text.last() {
        Some(last) => *last != b'\n',
        None => false,
    }
}

/// The first line of a package's dump.
const PACKAGE_LINE: &[u8; 18] = b"#%SCHEMA: 676b6370";

/// The first line of an index's dump.
const INDEX_LINE: &[u8; 18] = b"#%SCHEMA: 78646e69";

/// The first line of an installed database's dump.
const IDB_LINE: &[u8; 18] = b"#%SCHEMA: 00626469";

/// The first line of an intent's dump.
const INTENT_LINE: &[u8; 18] = b"#%SCHEMA: 74746e69";

/// The table of the root whose schema a first line names.
#[tactic(auto, unfolding(hex::specs::Hex::encode_with))]
fn table_of_line(line: &[u8]) -> Option<Which>
    ensures { result ≡ table_of_line line.now }
{
    if line == PACKAGE_LINE.as_slice() {
        return Some(Which::Package);
    }
    if line == INDEX_LINE.as_slice() {
        return Some(Which::Index);
    }
    if line == IDB_LINE.as_slice() {
        return Some(Which::Idb);
    }
    if line == INTENT_LINE.as_slice() {
        return Some(Which::Intent);
    }
    None
}

/// The schema in the header of a container with this table at its root; 0 if the table is no root.
fn schema_word_or_zero(which: Which) -> u32
    ensures { result ≡ schema_word_or_zero which }
{
    header_schema_if_root_table(which).unwrap_or(0)
}

/// Why no container is generated from a text.
#[derive(Clone, Copy, Debug, PartialEq, Eq, Drop, Error)]
pub enum GenFault {
    /// The number, from 1, of the first line that no dump text has after the lines before it. If
    /// another line must follow, this is the number of lines plus 1. A last line without a line end
    /// is a bad line.
    #[error("bad line {line}")]
    Bad { line: u64 },
    /// The payload would pass a limit of the writer. The counts are those just after the value that
    /// does: the payload's bytes, and its values with the root.
    #[error("a payload of {bytes} bytes and {values} values is too large")]
    TooLarge { bytes: u64, values: u64 },
    /// Out of memory.
    #[error("out of memory")]
    Memory,
}

impl From<AllocError> for GenFault {
    ghost use Rattle.std.specs.Prelude.{◌≡◌};
    ghost use Rattle.gen_core.specs.declared.generate.GenFault.TheVariants.{Memory};

    // The fault is `Memory`.
    ghost from_gives = { λ _ fault. fault ≡ Memory };

    /// Out of memory: nothing is said of the text.
    fn from(_: AllocError) -> GenFault {
        GenFault::Memory
    }
}
