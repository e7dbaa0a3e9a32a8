//! Reads the lines of a value, by its kind, and adds the value to a draft (a payload that is being
//! written). `generate.rt` calls `read_root`; a block has the lines that are indented by `depth`
//! levels, from the cursor on.
//! The rules are in `docs/formats.md`, "Dump text", the table of values and their lines; which
//! fields an object has, in what order, in "Schemas".

ghost use Rattle.std.specs.Prelude.{◌≡◌, ◌+◌, ◌<◌, ◌≤◌, [], ◌∷◌, List, Ok, Err, IfErr, IfOk, OnOk, codes, ◌++◌, drop, length, option_copied, true};
ghost use Rattle.adb_view.specs.Plain.{Plains, array};
ghost use Rattle.adb_view.specs.Schema.{field_name_text, shape_of, shapes_of};
ghost use Rattle.adb_view.specs.Rank.{rank, rank_of_all};
ghost use Rattle.adb_view.specs.declared.tables.Kind.TheVariants as Kinds;
ghost use Rattle.adb_dump.specs.Dump.{Line};
ghost use Rattle.adb_dump.specs.Margin.{DEPTH_LIMIT};
ghost use Rattle.adb_dump.specs.ReadBack.{ResultOrBadLine, block_read, entries_read_with_recursion_bound, fields_read, named_read, strip_prefix, value_of_lines_below_schema_line};
ghost use Rattle.adb_dump.specs.Words.{has_one_line};
ghost use Rattle.gen_core.specs.Cursors.{block_at, line_of_block};
ghost use Rattle.gen_core.specs.Reads.{IsLineRead, IsTextFault, block_taken, end_or_bad_line, entry_block_read, is_null_line, line_read, draft_and_cursor_after_line, values_taken};

use crate::cursor::{Cursor, without_prefix};
use crate::generate::GenFault;
use crate::value::{number_in, read_hash, read_text};
use adb_dump::{Field, FieldName, Kind, Which, fields_of, has_one_line};
use adb_values::Draft;
use std::alloc::{AllocError, Global};

/// Reads the root of a text, an object of this table, from all lines that are left. If no line is
/// left, the root is Null.
pub(crate) fn read_root(
    alloc: Global,
    draft: &mut Draft,
    cursor: &mut Cursor<'_>,
    which: Which,
) -> Result<(), GenFault>
    // No indentation of the current line was read yet.
    requires { cursor.old.levels ≡ 0 }
    // On Ok, the draft gets the value of the root, and all lines are read.
    ensures ok { OnOk result (block_taken (value_of_lines_below_schema_line which cursor.old.lines)
        (cursor.old.lines, [])
        draft.old cursor.old ≡ Ok (draft.new, cursor.new)) }
    // An error is the first bad line, or out of memory.
    ensures err { IfErr result (λ fault. IsTextFault fault (block_taken
        (value_of_lines_below_schema_line which cursor.old.lines)
        (cursor.old.lines, []) draft.old cursor.old)) }
{
    let Some(_line) = cursor.at_depth(0) else {
        draft.null()?;
        return Ok(());
    };
    // The bytes of each text and hash are collected here before they are written.
    let mut scratch = Vec::new(alloc);
    read_object(draft, cursor, &mut scratch, which, 0)
}

/// Reads the block of lines at the cursor that are indented by `depth` levels as a value of the
/// kind, which is added to `draft`; `scratch` is memory for the bytes of a text or hash.
#[cycle(block)]
fn read_block(
    draft: &mut Draft,
    cursor: &mut Cursor<'_>,
    scratch: &mut Vec<u8>,
    kind: Kind,
    depth: u32,
) -> Result<(), GenFault>
    // At most `depth` levels of the current line's indentation were read before.
    requires within { cursor.old.levels ≤ depth }
    // No line of the value is deeper than the limit, 100 levels, so no depth overflows.
    requires deep { depth + rank kind ≤ DEPTH_LIMIT }
    // On Ok, the draft gets the value of the block, and the cursor is after the block.
    ensures ok { let block = block_at depth cursor.old.lines in OnOk result
        (block_taken (block_read (shape_of kind) block.0)
        block draft.old cursor.old ≡ Ok (draft.new, cursor.new)) }
    // An error is the first bad line, or out of memory.
    ensures err { let block = block_at depth cursor.old.lines in IfErr result (λ fault.
        IsTextFault fault (block_taken (block_read (shape_of kind) block.0)
        block draft.old cursor.old)) }
{
    match kind {
        Kind::Int | Kind::Text | Kind::Hash => read_only_line(draft, cursor, scratch, kind, depth),
        Kind::TextArr => read_array(draft, cursor, scratch, Kind::Text, depth),
        Kind::ObjArr(which) => read_array(draft, cursor, scratch, Kind::Obj(which), depth),
        Kind::Obj(which) => read_object(draft, cursor, scratch, which, depth),
    }
}

/// Reads a block of one line, which is indented by `depth` levels, as a value of the kind, which is
/// added to `draft`; `scratch` is memory for the bytes of a text or hash.
fn read_only_line(
    draft: &mut Draft,
    cursor: &mut Cursor<'_>,
    scratch: &mut Vec<u8>,
    kind: Kind,
    depth: u32,
) -> Result<(), GenFault>
    // At most `depth` levels of the current line's indentation were read before.
    requires within { cursor.old.levels ≤ depth }
    // A value of the kind has one line.
    requires line { has_one_line kind ≡ true }
    // On Ok, the draft gets the value of the block, and the cursor is after the block.
    ensures ok { let block = block_at depth cursor.old.lines in OnOk result
        (block_taken (block_read (shape_of kind) block.0)
        block draft.old cursor.old ≡ Ok (draft.new, cursor.new)) }
    // An error is the first bad line, or out of memory.
    ensures err { let block = block_at depth cursor.old.lines in IfErr result (λ fault.
        IsTextFault fault (block_taken (block_read (shape_of kind) block.0)
        block draft.old cursor.old)) }
{
    let Some(line) = cursor.at_depth(depth) else {
        return Err(cursor.bad_line());
    };
    read_line(draft, cursor, scratch, kind, line)?;
    end_block(cursor, depth)
}

/// Reads the rest of the current line (`line`) as a value of the kind, which is added to `draft`,
/// and goes to the next line; `scratch` is memory for the bytes of a text or hash.
fn read_line(
    draft: &mut Draft,
    cursor: &mut Cursor<'_>,
    scratch: &mut Vec<u8>,
    kind: Kind,
    line: &[u8],
) -> Result<(), GenFault>
    // On Ok, the draft gets the value of the line, and the cursor is after the line.
    ensures ok { OnOk result (draft_and_cursor_after_line (line_read
        (shape_of kind) line.now) draft.old cursor.old
        ≡ Ok (draft.new, cursor.new)) }
    // An error is the first bad line, or out of memory.
    ensures err { IfErr result (λ fault. IsTextFault fault
        (draft_and_cursor_after_line (line_read (shape_of kind) line.now) draft.old cursor.old)) }
{
    if !read_value(draft, scratch, kind, line)? {
        return Err(cursor.bad_line());
    }
    cursor.turn();
    Ok(())
}

/// Reads a line as a value of the kind, and adds the value to `draft`; false if no value of the
/// kind has this line. `scratch` is memory for the bytes of a text or hash.
fn read_value(
    draft: &mut Draft,
    scratch: &mut Vec<u8>,
    kind: Kind,
    line: &[u8],
) -> Result<bool, AllocError>
    // On Ok true, the value is added to the draft; on Ok false, the line cannot be read.
    ensures { IfOk result (λ is. IsLineRead is (line_read (shape_of kind) line.now) draft.old
        draft.new) }
{
    match kind {
        Kind::Int => match number_in(line) {
            Some(number) => {
                draft.int(number)?;
                Ok(true)
            }
            None => Ok(false),
        },
        Kind::Text => {
            if !read_text(scratch, line)? {
                return Ok(false);
            }
            draft.blob(scratch)?;
            Ok(true)
        }
        Kind::Hash => {
            if !read_hash(scratch, line)? {
                return Ok(false);
            }
            draft.blob(scratch)?;
            Ok(true)
        }
        // Values of these kinds have several lines.
        Kind::Obj(_) => Ok(false),
        Kind::TextArr => Ok(false),
        Kind::ObjArr(_) => Ok(false),
    }
}

/// Tests that no further line belongs to a block of this depth.
fn end_block(cursor: &Cursor<'_>, depth: u32) -> Result<(), GenFault>
    // At most `depth` levels of the current line's indentation were read before.
    requires { cursor.now.levels ≤ depth }
    ensures { result ≡ end_or_bad_line (block_at depth cursor.now.lines).0 cursor.now.number }
{
    match cursor.at_depth(depth) {
        Some(_) => Err(cursor.bad_line()),
        None => Ok(()),
    }
}

/// Reads a block, whose lines are indented by `depth` levels, as an array of values of the kind,
/// which is added to `draft`; `scratch` is memory for the bytes of a text or hash.
#[cycle(block)]
fn read_array(
    draft: &mut Draft,
    cursor: &mut Cursor<'_>,
    scratch: &mut Vec<u8>,
    kind: Kind,
    depth: u32,
) -> Result<(), GenFault>
    // At most `depth` levels of the current line's indentation were read before.
    requires within { cursor.old.levels ≤ depth }
    // No line of the value is deeper than the limit, 100 levels, so no depth overflows.
    requires deep { depth + rank kind < DEPTH_LIMIT }
    // On Ok, the draft gets the value of the block, and the cursor is after the block.
    ensures ok { let block = block_at depth cursor.old.lines in OnOk result
        (block_taken (block_read (array (shape_of kind)) block.0)
        block draft.old cursor.old ≡ Ok (draft.new, cursor.new)) }
    // An error is the first bad line, or out of memory.
    ensures err { let block = block_at depth cursor.old.lines in IfErr result (λ fault.
        IsTextFault fault (block_taken (block_read (array (shape_of kind)) block.0)
        block draft.old cursor.old)) }
{
    let Some(_line) = cursor.at_depth(depth) else {
        return Err(cursor.bad_line());
    };
    draft.open_list()?;
    read_entries(draft, cursor, scratch, kind, depth)?;
    draft.close_array()?;
    Ok(())
}

/// Reads a block, whose lines are indented by `depth` levels, as values of the kind, each after a
/// dash. They are added to `draft`; `scratch` is memory for the bytes of a text or hash.
#[cycle(block)]
fn read_entries(
    draft: &mut Draft,
    cursor: &mut Cursor<'_>,
    scratch: &mut Vec<u8>,
    kind: Kind,
    depth: u32,
) -> Result<(), GenFault>
    // At most `depth` levels of the current line's indentation were read before.
    requires within { cursor.old.levels ≤ depth }
    // No line of the value is deeper than the limit, 100 levels, so no depth overflows.
    requires deep { depth + rank kind < DEPTH_LIMIT }
    // On Ok, the draft gets all values of the block, and the cursor is after the block.
    ensures ok { let block = block_at depth cursor.old.lines in OnOk result
        (values_taken (entries_read_with_recursion_bound (block_read (shape_of kind))
        (length block.0) block.0)
        block draft.old cursor.old ≡ Ok (draft.new, cursor.new)) }
    // An error is the first bad line, or out of memory.
    ensures err { let block = block_at depth cursor.old.lines in IfErr result (λ fault.
        IsTextFault fault (values_taken
        (entries_read_with_recursion_bound (block_read (shape_of kind)) (length block.0) block.0)
        block draft.old cursor.old)) }
{
    while let Some(line) = cursor.at_depth(depth) {
        let Some(entry) = without_prefix(line, b"- ") else {
            return Err(cursor.bad_line());
        };
        // The rest of the line counts as the first line of the entry, one level deeper.
        cursor.read_dash(entry, depth + 1);
        read_entry(draft, cursor, scratch, kind, depth + 1)?;
    }
    Ok(())
}

/// Reads a block, whose lines are indented by `depth` levels, as an entry of an array: `null`, or a
/// value of the kind. The entry is added to `draft`; `scratch` is memory for the bytes of a text or
/// hash.
#[cycle(block)]
fn read_entry(
    draft: &mut Draft,
    cursor: &mut Cursor<'_>,
    scratch: &mut Vec<u8>,
    kind: Kind,
    depth: u32,
) -> Result<(), GenFault>
    // At most `depth` levels of the current line's indentation were read before.
    requires within { cursor.old.levels ≤ depth }
    // No line of the value is deeper than the limit, 100 levels, so no depth overflows.
    requires deep { depth + rank kind ≤ DEPTH_LIMIT }
    // On Ok, the draft gets the value of the block, and the cursor is after the block.
    ensures ok { let block = block_at depth cursor.old.lines in OnOk result
        (block_taken (entry_block_read (block_read (shape_of kind)) block.0)
        block draft.old cursor.old ≡ Ok (draft.new, cursor.new)) }
    // An error is the first bad line, or out of memory.
    ensures err { let block = block_at depth cursor.old.lines in IfErr result (λ fault.
        IsTextFault fault (block_taken (entry_block_read (block_read (shape_of kind)) block.0)
        block draft.old cursor.old)) }
{
    if is_null_entry(cursor, depth) {
        draft.null()?;
        cursor.turn();
        return end_block(cursor, depth);
    }
    read_block(draft, cursor, scratch, kind, depth)
}

/// Whether a block has the first line `null`.
fn is_null_entry(cursor: &Cursor<'_>, depth: u32) -> bool
    // At most `depth` levels of the current line's indentation were read before.
    requires { cursor.now.levels ≤ depth }
    ensures { result ≡ is_null_line (line_of_block (block_at depth cursor.now.lines).0) }
{
    match cursor.at_depth(depth) {
        Some(line) => line == b"null".as_slice(),
        None => false,
    }
}

/// Reads a block, whose lines are indented by `depth` levels, as an object of the table `which`,
/// which is added to `draft`; `scratch` is memory for the bytes of a text or hash.
#[cycle(block)]
#[tactic(auto, using(adb_view::proofs::WalkSteps::table_rank))]
fn read_object(
    draft: &mut Draft,
    cursor: &mut Cursor<'_>,
    scratch: &mut Vec<u8>,
    which: Which,
    depth: u32,
) -> Result<(), GenFault>
    // At most `depth` levels of the current line's indentation were read before.
    requires within { cursor.old.levels ≤ depth }
    // No line of the value is deeper than the limit, 100 levels, so no depth overflows.
    requires deep { depth + rank (Kinds.Obj which) ≤ DEPTH_LIMIT }
    // On Ok, the draft gets the value of the block, and the cursor is after the block.
    ensures ok { let block = block_at depth cursor.old.lines in OnOk result
        (block_taken (block_read (shape_of (Kinds.Obj which)) block.0)
        block draft.old cursor.old ≡ Ok (draft.new, cursor.new)) }
    // An error is the first bad line, or out of memory.
    ensures err { let block = block_at depth cursor.old.lines in IfErr result (λ fault.
        IsTextFault fault (block_taken (block_read (shape_of (Kinds.Obj which)) block.0)
        block draft.old cursor.old)) }
{
    let Some(_line) = cursor.at_depth(depth) else {
        return Err(cursor.bad_line());
    };
    draft.open_list()?;
    read_fields(draft, cursor, scratch, fields_of(which), depth)?;
    draft.close_object()?;
    Ok(())
}

/// Reads a block, whose lines are indented by `depth` levels, as the fields of an object, in their
/// order; a field without a line is Null. The fields are added to `draft`; `scratch` is memory for
/// the bytes of a text or hash.
#[cycle(block)]
#[tactic(auto, using(adb_view::proofs::WalkSteps::field_rank))]
fn read_fields(
    draft: &mut Draft,
    cursor: &mut Cursor<'_>,
    scratch: &mut Vec<u8>,
    fields: &[Field],
    depth: u32,
) -> Result<(), GenFault>
    // At most `depth` levels of the current line's indentation were read before.
    requires within { cursor.old.levels ≤ depth }
    // No line of the value is deeper than the limit, 100 levels, so no depth overflows.
    requires deep { depth + rank_of_all fields.now < DEPTH_LIMIT }
    // On Ok, the draft gets all values of the block, and the cursor is after the block.
    ensures ok { let block = block_at depth cursor.old.lines in OnOk result
        (values_taken (fields_read (shapes_of fields.now) block.0)
        block draft.old cursor.old ≡ Ok (draft.new, cursor.new)) }
    // An error is the first bad line, or out of memory.
    ensures err { let block = block_at depth cursor.old.lines in IfErr result (λ fault.
        IsTextFault fault (values_taken (fields_read (shapes_of fields.now) block.0)
        block draft.old cursor.old)) }
{
    // The next line of the block, without its indentation; None at the end of the block.
    let mut next = cursor.at_depth(depth);
    for field in fields {
        let Some(line) = next else {
            return Ok(());
        };
        match after_name(line, field.name) {
            Some(value) => {
                read_named(draft, cursor, scratch, field.kind, value, depth)?;
                next = cursor.at_depth(depth);
            }
            // The line is that of a later field, so this field is Null.
            None => draft.null()?,
        }
    }
    end_block(cursor, depth)
}

/// The rest of a line after the name of a field and a colon, if the line begins with these.
fn after_name(line: &[u8], name: FieldName) -> Option<&[u8]>
    // The result is the rest of the line after `name:`, or None.
    ensures { option_copied result
        ≡ strip_prefix (field_name_text name ++ codes ":") line.entry.now }
{
    match without_prefix(line, name.text().as_bytes()) {
        Some(rest) => without_prefix(rest, b":"),
        None => None,
    }
}

/// Reads the value of a field. `value` is the rest of the field's first line after its name and
/// colon; the value is there, or in the block below, one level deeper than `depth`. The value is
/// added to `draft`; `scratch` is memory for the bytes of a text or hash.
#[cycle(block)]
fn read_named(
    draft: &mut Draft,
    cursor: &mut Cursor<'_>,
    scratch: &mut Vec<u8>,
    kind: Kind,
    value: &[u8],
    depth: u32,
) -> Result<(), GenFault>
    // At most `depth` levels of the current line's indentation were read before.
    requires within { cursor.old.levels ≤ depth }
    // No line of the value is deeper than the limit, 100 levels, so no depth overflows.
    requires deep { depth + rank kind < DEPTH_LIMIT }
    // The block has a line.
    requires some { 0 < length (block_at depth cursor.old.lines).0 }
    // On Ok, the draft gets the value of this field, and the cursor is after the field: whatever
    // reads the other fields (`others`) goes on from there.
    ensures ok { let block = block_at depth cursor.old.lines in OnOk result
        ((others : List Line → ResultOrBadLine Plains)
        → values_taken (named_read (shape_of kind) others (drop 1 block.0) value.now)
        block draft.old cursor.old
        ≡ values_taken (others (block_at depth cursor.new.lines).0)
        (block_at depth cursor.new.lines) draft.new cursor.new) }
    // Nothing of the next line's indentation was read yet.
    ensures begun { OnOk result (cursor.new.levels ≡ 0) }
    // An error is the first bad line, or out of memory.
    ensures err { let block = block_at depth cursor.old.lines in IfErr result (λ fault.
        (others : List Line → ResultOrBadLine Plains) → IsTextFault fault
        (values_taken (named_read (shape_of kind) others (drop 1 block.0) value.now)
        block draft.old cursor.old)) }
{
    if has_one_line(kind) {
        let Some(line) = without_prefix(value, b" ") else {
            return Err(cursor.bad_line());
        };
        return read_line(draft, cursor, scratch, kind, line);
    }
    if !value.is_empty() {
        return Err(cursor.bad_line());
    }
    cursor.turn();
    read_block(draft, cursor, scratch, kind, depth + 1)
}
