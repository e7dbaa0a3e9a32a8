//! The text of a container: the lines of its values, written from the words of its payload. The
//! rules are in `docs/formats.md`, "Dump text", the table of values and their lines; the fields of
//! an object and their order are in "Schemas". The README of this crate says how often a text is
//! written, and with how much memory.

ghost use Rattle.std.specs.Prelude.{◌≡◌, ◌++◌, true, codes, is_some, length, IfOk, OnOk, ◌<◌, ◌≤◌, ◌+◌, false};
ghost use Rattle.adb_view.specs.ShapedPayload.{adb_of, shaped_value, table_of};
ghost use Rattle.adb_schema.specs.Soundness.{header_schema_if_root_table};
ghost use Rattle.adb_dump.specs.Dump.{dump_text, schema_line_or_empty_line, block_lines, array_lines, fields_lines, named_lines, entry_lines_or_null_line, field_lines_unless_null};
ghost use Rattle.adb_view.specs.Adb.{payload_of};
ghost use Rattle.adb_view.specs.Entries.{array_entries};
ghost use Rattle.adb_schema.specs.adb_fields.Fields.{are_all_sound, values_at};
ghost use Rattle.adb_view.specs.Rank.{rank, rank_of_all};
ghost use Rattle.adb_view.specs.Schema.{field_name_text, shape_of, shapes_of};
ghost use Rattle.adb_view.specs.Values.{is_sound, value_at};
ghost use Rattle.adb_dump.specs.Margin.{indented_lines_text, DEPTH_LIMIT};
ghost use Rattle.adb_dump.specs.Out.{Puts, PutsForAnyPayload};
ghost use Rattle.adb_view.specs.declared.tables.Kind.TheVariants as Kinds;
ghost use Rattle.adb_dump.specs.Words.{are_null, is_null, fields_sound, fields_at, has_one_line};

use crate::line::{
    LineStart, write_dash, write_hash_line, write_hex, write_name, write_name_line,
    write_number_line, write_text_line,
};
use crate::text_out::{BlobOut, Count, Out, Room};
use crate::words::{field_words, is_null};
use adb_schema::{
    Field, FieldName, Kind, Shaped, Which, fields_of, hash_word, header_schema_if_root_table,
    int_word, objects_word, text_word, texts_word,
};
use adb_view::{Adb, Arr, Val, entry_word};
use base_core::Text;
use std::alloc::{AllocError, Global};

/// The text of a payload with the shape of a package, an index, an installed database or a journal
/// entry: a line for its schema, and then the fields of its root that are not Null. A text of at
/// most four times the payload's bytes is written at once. The bytes of a longer one are counted
/// first, and its memory is allocated once.
pub fn dump(alloc: Global, shaped: &Shaped<'_>) -> Result<Text, AllocError>
    // The table is one of the four that a container may have at its root.
    requires { is_some (header_schema_if_root_table (table_of shaped.now)) ≡ true }
    // On Ok, the text is the dump text of the value at the root.
    ensures { IfOk result
        (λ text. text ≡ dump_text (table_of shaped.now) (shaped_value shaped.now)) }
{
    match short_dump(alloc, shaped) {
        Ok(text) => Ok(text),
        Err(_) => counted_dump(alloc, shaped),
    }
}

/// The longest text that is written without counting it first, in multiples of its payload's bytes.
/// Any number is correct: with a greater one more memory is allocated, with a smaller one more
/// texts are written twice.
const MOST_TEXT_PER_PAYLOAD_BYTE: usize = 4;

/// The text of a payload, if it has at most `MOST_TEXT_PER_PAYLOAD_BYTE` as many bytes as the
/// payload, and there is memory for that.
fn short_dump(alloc: Global, shaped: &Shaped<'_>) -> Result<Text, AllocError>
    // The table is one of the four that a container may have at its root.
    requires { is_some (header_schema_if_root_table (table_of shaped.now)) ≡ true }
    // On Ok, the text is the dump text of the value at the root.
    ensures { IfOk result
        (λ text. text ≡ dump_text (table_of shaped.now) (shaped_value shaped.now)) }
{
    // The most bytes that this text may have.
    let room = shaped
        .adb()
        .payload()
        .len()
        .saturating_mul(MOST_TEXT_PER_PAYLOAD_BYTE);
    let mut out = Room::new(alloc, room)?;
    write_dump(&mut out, shaped)?;
    Ok(Text::from_vec(out.bytes))
}

/// The text of a payload, whose bytes are counted first.
fn counted_dump(alloc: Global, shaped: &Shaped<'_>) -> Result<Text, AllocError>
    // The table is one of the four that a container may have at its root.
    requires { is_some (header_schema_if_root_table (table_of shaped.now)) ≡ true }
    // On Ok, the text is the dump text of the value at the root.
    ensures { IfOk result
        (λ text. text ≡ dump_text (table_of shaped.now) (shaped_value shaped.now)) }
{
    let len = dump_len(alloc, shaped)?;
    let mut out = Vec::with_capacity(alloc, len)?;
    write_dump(&mut out, shaped)?;
    let is_exact = out.len() == len;
    // The allocated memory is exactly filled: `write_dump` both counts and writes.
    prove!(is_exact);
    Ok(Text::from_vec(out))
}

/// How many bytes the text of a payload has.
fn dump_len(alloc: Global, shaped: &Shaped<'_>) -> Result<usize, AllocError>
    // The table is one of the four that a container may have at its root.
    requires { is_some (header_schema_if_root_table (table_of shaped.now)) ≡ true }
    // On Ok, the result is the length of the dump text.
    ensures { IfOk result
        (λ len. len ≡ length (dump_text (table_of shaped.now) (shaped_value shaped.now))) }
{
    let mut count = Count::new(alloc);
    write_dump(&mut count, shaped)?;
    Ok(count.len.bytes)
}

/// Puts the text of a payload into an output: the line of the schema, and then the lines of the
/// root.
fn write_dump<O: BlobOut>(out: &mut O, shaped: &Shaped<'_>) -> Result<(), AllocError>
    // The table is one of the four that a container may have at its root.
    requires { is_some (header_schema_if_root_table (table_of shaped.now)) ≡ true }
    // On Ok, exactly the dump text is written.
    ensures { OnOk result (Puts (O.holds (payload_of (adb_of shaped.now))) out.old out.new
        (dump_text (table_of shaped.now) (shaped_value shaped.now))) }
{
    let adb = shaped.adb();
    let which = shaped.which();
    let root = field_words(adb, which, adb.root());
    let start = LineStart {
        depth: 0,
        begun: false,
    };
    write_schema(out, which)?;
    write_fields(out, adb, fields_of(which), root, start)?;
    Ok(())
}

/// Writes the first line of a text, with the schema of its root.
fn write_schema<O: Out>(out: &mut O, which: Which) -> Result<(), AllocError>
    // The table is one of the four that a container may have at its root.
    requires { is_some (header_schema_if_root_table which) ≡ true }
    // On Ok, exactly the line of the schema is written, with its line end.
    ensures { OnOk result (PutsForAnyPayload O.holds out.old out.new
        (schema_line_or_empty_line (header_schema_if_root_table which) ++ codes "\n")) }
{
    match header_schema_if_root_table(which) {
        Some(word) => {
            out.put(b"#%SCHEMA: ")?;
            write_hex(out, &word.to_be_bytes())?;
            out.put(b"\n")?;
            Ok(())
        }
        // Only roots are dumped, and each has a schema.
        None => unreachable!(),
    }
}

/// Writes the lines of the value of this kind to which `word` refers in the payload of `adb`; it is
/// not Null. `start` says how deep its lines are, and whether the first one is already begun.
#[cycle(block)]
#[tactic(auto, using(adb_view::proofs::WalkSteps::table_rank, crate::proofs::BlockLines::int_lines, crate::proofs::BlockLines::text_lines, crate::proofs::BlockLines::hash_lines, crate::proofs::BlockLines::texts_lines, crate::proofs::BlockLines::objects_lines, crate::proofs::BlockLines::object_lines))]
#[inline(always)]
fn write_block<O: BlobOut>(
    out: &mut O,
    adb: Adb<'_>,
    kind: Kind,
    word: Val,
    start: LineStart,
) -> Result<(), AllocError>
    // The word refers to a value of this kind, or is NULL.
    requires sound { is_sound (payload_of adb) kind word ≡ true }
    // The value is not Null.
    requires some { is_null (value_at (payload_of adb) kind word) ≡ false }
    // No line of the value is deeper than the limit, 100 levels, so no depth overflows.
    requires deep { start.depth + rank kind ≤ DEPTH_LIMIT }
    // On Ok, exactly the lines of the value are written.
    ensures { OnOk result (Puts (O.holds (payload_of adb.entry)) out.old out.new
        (indented_lines_text start.depth start.begun
        (block_lines (shape_of kind) (value_at (payload_of adb.entry) kind word)))) }
{
    match kind {
        Kind::Int => write_number_line(out, start, int_word(adb, word)),
        Kind::Text => write_text_line(out, start, adb, word, text_word(adb, word)),
        Kind::Hash => write_hash_line(out, start, hash_word(adb, word)),
        Kind::TextArr => write_entries(out, adb, Kind::Text, texts_word(adb, word), start),
        Kind::ObjArr(which) => {
            let words = objects_word(adb, which, word);
            write_entries(out, adb, Kind::Obj(which), words, start)
        }
        Kind::Obj(which) => {
            let words = field_words(adb, which, word);
            write_fields(out, adb, fields_of(which), words, start)?;
            Ok(())
        }
    }
}

/// Writes the entries of an array, each after a dash. `words` are the words of the entries, which
/// have the kind `kind`; `start` says how the first line starts.
#[cycle(block)]
#[tactic(auto, using(crate::proofs::Turns::entry_here, crate::proofs::Turns::entries_later, crate::proofs::Turns::entry_turn, crate::proofs::Turns::entries_end))]
fn write_entries<O: BlobOut>(
    out: &mut O,
    adb: Adb<'_>,
    kind: Kind,
    words: Arr<'_>,
    start: LineStart,
) -> Result<(), AllocError>
    // Each word refers to a value of this kind, or is NULL.
    requires sound { are_all_sound (payload_of adb) kind (array_entries words) ≡ true }
    // No line of the value is deeper than the limit, 100 levels, so no depth overflows.
    requires deep { start.depth + rank kind < DEPTH_LIMIT }
    // On Ok, exactly the lines of the array are written.
    ensures { OnOk result (Puts (O.holds (payload_of adb.entry)) out.old out.new
        (indented_lines_text start.depth start.begun
        (array_lines (block_lines (shape_of kind))
        (values_at (payload_of adb.entry) kind (array_entries words.entry))))) }
{
    // Only the first line may be begun already.
    let mut begun = start.begun;
    for i in 0..words.len() {
        write_dash(out, start.depth, begun)?;
        begun = false;
        write_entry(out, adb, kind, entry_word(words, i), start.depth + 1)?;
    }
    Ok(())
}

/// Writes the lines of an entry of an array, after its dash; an entry that is Null has the line
/// `null`. `word` is the word of the entry, and `depth` the depth of its lines.
#[cycle(block)]
#[tactic(auto, using(crate::proofs::Turns::null_entry, crate::proofs::Turns::some_entry))]
fn write_entry<O: BlobOut>(
    out: &mut O,
    adb: Adb<'_>,
    kind: Kind,
    word: Val,
    depth: u32,
) -> Result<(), AllocError>
    // The word refers to a value of this kind, or is NULL.
    requires sound { is_sound (payload_of adb) kind word ≡ true }
    // No line of the value is deeper than the limit, 100 levels, so no depth overflows.
    requires deep { depth + rank kind ≤ DEPTH_LIMIT }
    // On Ok, exactly the lines of the entry are written; its first line is already begun.
    ensures { OnOk result (Puts (O.holds (payload_of adb.entry)) out.old out.new
        (indented_lines_text depth true
        (entry_lines_or_null_line (value_at (payload_of adb.entry) kind word)
        (block_lines (shape_of kind) (value_at (payload_of adb.entry) kind word))))) }
{
    if let Kind::Obj(which) = kind {
        return write_object_entry(out, adb, which, word, depth);
    }
    if is_null(adb, kind, word) {
        return out.put(b"null\n");
    }
    write_block(out, adb, kind, word, LineStart { depth, begun: true })
}

/// Writes the lines of an entry that is an object of the table `which`. Whether the object is Null
/// is known only after its fields: if no field was written, the line is `null`.
#[cycle(block)]
fn write_object_entry<O: BlobOut>(
    out: &mut O,
    adb: Adb<'_>,
    which: Which,
    word: Val,
    depth: u32,
) -> Result<(), AllocError>
    // The word refers to an object of this table, or is NULL.
    requires sound { is_sound (payload_of adb) (Kinds.Obj which) word ≡ true }
    // No line of the value is deeper than the limit, 100 levels, so no depth overflows.
    requires deep { depth + rank (Kinds.Obj which) ≤ DEPTH_LIMIT }
    // On Ok, exactly the lines of the entry are written; its first line is already begun.
    ensures { OnOk result (Puts (O.holds (payload_of adb.entry)) out.old out.new
        (indented_lines_text depth true
        (entry_lines_or_null_line (value_at (payload_of adb.entry) (Kinds.Obj which) word)
        (block_lines (shape_of (Kinds.Obj which))
        (value_at (payload_of adb.entry) (Kinds.Obj which) word))))) }
{
    let words = field_words(adb, which, word);
    let start = LineStart { depth, begun: true };
    if write_fields(out, adb, fields_of(which), words, start)? {
        return out.put(b"null\n");
    }
    Ok(())
}

/// Writes the fields of an object that are not Null, and returns whether all fields are Null.
/// `words` are the words of the object; words past its fields are ignored. `start` says how the
/// first line starts.
#[cycle(block)]
#[tactic(auto, using(adb_view::proofs::WalkSteps::field_rank, crate::proofs::Left::field_here, crate::proofs::Left::fields_later, crate::proofs::Turns::field_turn, crate::proofs::Turns::null_turn, crate::proofs::Turns::words_end, crate::proofs::Turns::fields_end))]
pub(crate) fn write_fields<O: BlobOut>(
    out: &mut O,
    adb: Adb<'_>,
    fields: &[Field],
    words: Arr<'_>,
    start: LineStart,
) -> Result<bool, AllocError>
    // Each word refers to a value of the kind of its field, or is NULL.
    requires sound { fields_sound (payload_of adb) fields.now (array_entries words) ≡ true }
    // No line of the value is deeper than the limit, 100 levels, so no depth overflows.
    requires deep { start.depth + rank_of_all fields.now < DEPTH_LIMIT }
    // On Ok, the result says whether the values of all fields are Null.
    ensures null { IfOk result (λ null. null
        ≡ are_null (fields_at (payload_of adb.entry) fields.now (array_entries words.entry))) }
    // On Ok, exactly the lines of the fields that are not Null are written.
    ensures put { IfOk result (λ _. Puts (O.holds (payload_of adb.entry)) out.old out.new
        (indented_lines_text start.depth start.begun
        (fields_lines (shapes_of fields.now)
        (fields_at (payload_of adb.entry) fields.now (array_entries words.entry))))) }
{
    // Only the first line may be begun already.
    let mut begun = start.begun;
    let mut all_null = true;
    for (i, field) in fields.iter().enumerate() {
        // Entries past the last are NULL.
        if i >= words.len() {
            break;
        }
        let word = entry_word(words, i);
        let depth = start.depth;
        if write_field(out, adb, *field, word, LineStart { depth, begun })? {
            continue;
        }
        begun = false;
        all_null = false;
    }
    Ok(all_null)
}

/// Writes the lines of a field, and returns whether its value is Null. A field whose value is Null
/// has no lines.
#[cycle(block)]
fn write_field<O: BlobOut>(
    out: &mut O,
    adb: Adb<'_>,
    field: Field,
    word: Val,
    start: LineStart,
) -> Result<bool, AllocError>
    // The word refers to a value of the field's kind, or is NULL.
    requires sound { is_sound (payload_of adb) field.kind word ≡ true }
    // No line of the value is deeper than the limit, 100 levels, so no depth overflows.
    requires deep { start.depth + rank field.kind < DEPTH_LIMIT }
    // On Ok, the result says whether the value is Null.
    ensures null { IfOk result (λ null. null
        ≡ is_null (value_at (payload_of adb.entry) field.kind word)) }
    // On Ok, exactly the lines of the field are written: none if its value is Null.
    ensures put { IfOk result (λ _. Puts (O.holds (payload_of adb.entry)) out.old out.new
        (indented_lines_text start.depth start.begun
        (field_lines_unless_null (value_at (payload_of adb.entry) field.kind word)
        (named_lines (shape_of field.kind) (field_name_text field.name)
        (value_at (payload_of adb.entry) field.kind word))))) }
{
    if let Kind::Text = field.kind {
        return write_text_field(out, adb, field.name, word, start);
    }
    if is_null(adb, field.kind, word) {
        // A value that is Null has no lines.
        return Ok(true);
    }
    write_named(out, adb, field, word, start)?;
    Ok(false)
}

/// Writes the line of a field with a text, and returns whether its value is Null; then the field
/// has no line. Most fields are texts, so here the text is read only once.
#[inline(always)]
fn write_text_field<O: BlobOut>(
    out: &mut O,
    adb: Adb<'_>,
    name: FieldName,
    word: Val,
    start: LineStart,
) -> Result<bool, AllocError>
    // The word has a plain value: a text, or Null.
    requires { is_sound (payload_of adb) Kinds.Text word ≡ true }
    // On Ok, the result says whether the value is Null.
    ensures null { IfOk result (λ null. null
        ≡ is_null (value_at (payload_of adb.entry) Kinds.Text word)) }
    // On Ok, exactly the lines of the field are written: none if its value is Null.
    ensures put { IfOk result (λ _. Puts (O.holds (payload_of adb.entry)) out.old out.new
        (indented_lines_text start.depth start.begun
        (field_lines_unless_null (value_at (payload_of adb.entry) Kinds.Text word)
        (named_lines (shape_of Kinds.Text) (field_name_text name)
        (value_at (payload_of adb.entry) Kinds.Text word))))) }
{
    let text = text_word(adb, word);
    if text.is_empty() {
        // An empty text is Null, and has no line.
        return Ok(true);
    }
    // The value is on the line that the name has begun.
    let LineStart { depth, .. } = start;
    write_name(out, start, name)?;
    write_text_line(out, LineStart { depth, begun: true }, adb, word, text)?;
    Ok(false)
}

/// Writes the lines of a field whose value is not Null: the value follows the name on its line, or
/// is below it, one level deeper.
#[cycle(block)]
#[tactic(auto, using(crate::proofs::Turns::field_after, crate::proofs::Turns::fields_read_with_value_below))]
#[inline(always)]
fn write_named<O: BlobOut>(
    out: &mut O,
    adb: Adb<'_>,
    field: Field,
    word: Val,
    start: LineStart,
) -> Result<(), AllocError>
    // The word refers to a value of the field's kind, or is NULL.
    requires sound { is_sound (payload_of adb) field.kind word ≡ true }
    // The value is not Null.
    requires some { is_null (value_at (payload_of adb) field.kind word) ≡ false }
    // No line of the value is deeper than the limit, 100 levels, so no depth overflows.
    requires deep { start.depth + rank field.kind < DEPTH_LIMIT }
    // On Ok, exactly the lines of the field are written.
    ensures { OnOk result (Puts (O.holds (payload_of adb.entry)) out.old out.new
        (indented_lines_text start.depth start.begun
        (named_lines (shape_of field.kind) (field_name_text field.name)
        (value_at (payload_of adb.entry) field.kind word)))) }
{
    let LineStart { depth, .. } = start;
    if has_one_line(field.kind) {
        write_name(out, start, field.name)?;
        write_block(out, adb, field.kind, word, LineStart { depth, begun: true })
    } else {
        write_name_line(out, start, field.name)?;
        write_block(
            out,
            adb,
            field.kind,
            word,
            LineStart {
                depth: depth + 1,
                begun: false,
            },
        )
    }
}

/// Whether a value of the kind is on the same line as its field's name, and not below this line.
pub fn has_one_line(kind: Kind) -> bool
    ensures { result ≡ has_one_line kind }
{
    match kind {
        Kind::Int | Kind::Text | Kind::Hash => true,
        Kind::Obj(_) | Kind::TextArr | Kind::ObjArr(_) => false,
    }
}
