//! Lines: what precedes a value on its line (the front), and values on one line. `block.rt` calls
//! these functions for each line. The rules are in `docs/formats.md`, "Dump text": the table, and
//! the paragraph on texts as they are or between quotes.

ghost use Rattle.std.specs.Prelude.{◌≡◌, ◌+◌, ◌≤◌, [], ◌∷◌, ◌++◌, OnOk, codes, drop, length};
ghost use Rattle.std.specs.Fmt.{decimal};
ghost use Rattle.std.specs.List.{flat_map, list_all};
ghost use Rattle.hex.specs.Hex.{encode_lower};
ghost use Rattle.adb_dump.specs.Dump.{begins_with_byte, ends_with_byte, quoted_form_of_byte, needs_no_quotes, is_printable, quoted_text, bare_or_quoted_text};
ghost use Rattle.adb_dump.specs.Margin.{indented_lines_text, margin_unless_begun, margin};
ghost use Rattle.adb_dump.specs.Out.{Puts, PutsForAnyPayload};
ghost use Rattle.adb_view.specs.Values.{text_in, value_at};
ghost use Rattle.adb_view.specs.declared.tables.Kind.TheVariants as Kinds;
ghost use Rattle.adb_view.specs.Adb.{payload_of};
ghost use Rattle.adb_view.specs.Schema.{field_name_text};

use crate::front::{FRONT_LEN, FRONT_LEVELS, blank_front, dash_front, name_front};
use crate::text_out::{BlobOut, Out};
use adb_schema::FieldName;
use adb_view::{Adb, Val};
use itoa::Buffer;
use std::alloc::AllocError;

/// The length of a SHA-256, the most frequent length in hexadecimal digits. Bytes of this length
/// are written at once, and others byte by byte.
const HASH_LEN: usize = 32;

/// Puts the line of an integer, in decimal digits.
pub(crate) fn write_number_line<O: Out>(
    out: &mut O,
    start: LineStart,
    number: u64,
) -> Result<(), AllocError>
    // On Ok, one line is put, with its line end, without its margin if the line is already begun.
    ensures { OnOk result (PutsForAnyPayload O.holds out.old out.new
        (indented_lines_text start.depth start.begun (decimal number ∷ []))) }
{
    write_lead(out, start)?;
    write_number(out, number)?;
    out.put_byte(b'\n')?;
    Ok(())
}

/// Writes the line of `text`, which is the text of the word.
#[inline(always)]
pub(crate) fn write_text_line<O: BlobOut>(
    out: &mut O,
    start: LineStart,
    adb: Adb<'_>,
    word: Val,
    text: &[u8],
) -> Result<(), AllocError>
    // These bytes are the text of the word.
    requires { text.now ≡ text_in (value_at (payload_of adb) Kinds.Text word) }
    // On Ok, one line is put, with its line end, without its margin if the line is already begun.
    ensures { OnOk result (Puts (O.holds (payload_of adb.entry)) out.old out.new
        (indented_lines_text start.depth start.begun (bare_or_quoted_text text.now ∷ []))) }
{
    write_lead(out, start)?;
    out.put_text(adb, word, text)?;
    out.put_byte(b'\n')?;
    Ok(())
}

/// Puts the line of a hash, in hexadecimal digits.
pub(crate) fn write_hash_line<O: BlobOut>(
    out: &mut O,
    start: LineStart,
    hash: &[u8],
) -> Result<(), AllocError>
    // On Ok, one line is put, with its line end, without its margin if the line is already begun.
    ensures { OnOk result (PutsForAnyPayload O.holds out.old out.new
        (indented_lines_text start.depth start.begun (encode_lower hash.now ∷ []))) }
{
    write_lead(out, start)?;
    out.put_hash(hash)?;
    out.put_byte(b'\n')?;
    Ok(())
}

/// Puts an integer in decimal digits.
fn write_number<O: Out>(out: &mut O, number: u64) -> Result<(), AllocError>
    ensures { OnOk result (PutsForAnyPayload O.holds out.old out.new (decimal number)) }
{
    let mut digits = Buffer::new();
    out.put(digits.format(number).as_bytes())
}

/// Puts bytes, each in two lower-case hexadecimal digits.
pub(crate) fn write_hex<O: Out>(out: &mut O, bytes: &[u8]) -> Result<(), AllocError>
    ensures { OnOk result (PutsForAnyPayload O.holds out.old out.new (encode_lower bytes.now)) }
{
    // Most hashes have this length, and are written at once.
    if bytes.len() == HASH_LEN {
        return out.put(&hash_digits(bytes));
    }
    for byte in bytes {
        out.put(&hex_digits(*byte))?;
    }
    Ok(())
}

/// The digits of as many bytes as a SHA-256 has, two for each.
fn hash_digits(hash: &[u8]) -> [u8; 2 * HASH_LEN]
    // The hash has as many bytes as a SHA-256 (`HASH_LEN`).
    requires { length hash.now ≡ 32 }
    ensures { result ≡ encode_lower hash.now }
{
    let mut digits = [0; 2 * HASH_LEN];
    let _ = hex::encode_to_slice(hash, &mut digits);
    digits
}

/// The two hexadecimal digits of a byte, lower-case.
fn hex_digits(byte: u8) -> [u8; 2]
    ensures { result ≡ encode_lower (byte ∷ []) }
{
    let mut digits = [0; 2];
    let _ = hex::encode_to_slice([byte], &mut digits);
    digits
}

/// Writes a text as it is if it needs no quotes, else between quotes.
#[inline(always)]
pub(crate) fn write_text<O: Out>(out: &mut O, text: &[u8]) -> Result<(), AllocError>
    // On Ok, exactly the text is written, with quotes if it needs them.
    ensures { OnOk result (PutsForAnyPayload O.holds out.old out.new
        (bare_or_quoted_text text.now)) }
{
    if needs_no_quotes(text) {
        out.put(text)
    } else {
        write_quoted(out, text)
    }
}

/// Puts a text between quotes, escaped byte by byte.
#[cold]
#[inline(never)]
fn write_quoted<O: Out>(out: &mut O, text: &[u8]) -> Result<(), AllocError>
    ensures { OnOk result (PutsForAnyPayload O.holds out.old out.new (quoted_text text.now)) }
{
    out.put_byte(b'"')?;
    for byte in text {
        write_escaped(out, *byte)?;
    }
    out.put_byte(b'"')?;
    Ok(())
}

/// Writes a byte of a text between quotes: as it is, or its escape.
fn write_escaped<O: Out>(out: &mut O, byte: u8) -> Result<(), AllocError>
    ensures { OnOk result (PutsForAnyPayload O.holds out.old out.new (quoted_form_of_byte byte)) }
{
    match byte {
        b'\n' => out.put(b"\\n"),
        b'\\' => out.put(b"\\\\"),
        b'"' => out.put(b"\\\""),
        0x20..=0x7e => out.put_byte(byte),
        _ => {
            out.put(b"\\x")?;
            out.put(&hex_digits(byte))?;
            Ok(())
        }
    }
}

/// Whether a text may be written as it is: every byte is printable, no space is first or last, no
/// quote is first, and the text is not `null`.
pub fn needs_no_quotes(text: &[u8]) -> bool
    ensures { result ≡ needs_no_quotes text.now }
{
    if !is_printable(text) {
        return false;
    }
    if begins_with_byte(b' ', text) {
        return false;
    }
    if ends_with_byte(b' ', text) {
        return false;
    }
    if begins_with_byte(b'"', text) {
        return false;
    }
    text != b"null".as_slice()
}

/// Whether a text is not empty and begins with this byte.
#[tactic(auto, using(crate::proofs::Pieces::begins_some, crate::proofs::Pieces::begins_none))]
fn begins_with_byte(byte: u8, text: &[u8]) -> bool
    ensures { result ≡ begins_with_byte byte text.now }
{
    match text.first() {
        Some(first) => byte == *first,
        None => false,
    }
}

/// Whether a text is not empty and ends with this byte.
#[tactic(auto, using(crate::proofs::Pieces::ends_some, crate::proofs::Pieces::ends_none))]
fn ends_with_byte(byte: u8, text: &[u8]) -> bool
    ensures { result ≡ ends_with_byte byte text.now }
{
    match text.last() {
        Some(last) => byte == *last,
        None => false,
    }
}

/// How many bytes of a long text are tested at once. The compiler tests a constant number of bytes
/// (16, 8 or 4) in a few steps.
const WINDOW_LEN: usize = 16;

/// Whether every byte of a text is printable. A long text is tested in windows of 16 bytes. Windows
/// may overlap, which is faster than testing the rest of the text byte by byte.
fn is_printable(text: &[u8]) -> bool
    ensures { result ≡ list_all is_printable text.now }
{
    let len = text.len();
    if len > WINDOW_LEN {
        return is_long_printable(text);
    }
    if len >= WINDOW_LEN / 2 {
        return are_ends_printable(text, WINDOW_LEN / 2);
    }
    if len >= WINDOW_LEN / 4 {
        return are_ends_printable(text, WINDOW_LEN / 4);
    }
    is_window_printable(text)
}

/// Whether every byte of a text of at least 16 bytes is printable. The text is tested window by
/// window, and the last window ends with the text.
fn is_long_printable(text: &[u8]) -> bool
    // The text is at least as long as a window (`WINDOW_LEN`).
    requires { 16 ≤ length text.now }
    ensures { result ≡ list_all is_printable text.now }
{
    // The index at which the last window begins.
    let last = text.len() - WINDOW_LEN;
    let mut at = 0;
    while at < last {
        if !is_window_printable(&text[at..at + WINDOW_LEN]) {
            return false;
        }
        at += WINDOW_LEN;
    }
    is_window_printable(&text[last..last + WINDOW_LEN])
}

/// Whether every byte of a text is printable, by its first `len` bytes and its last `len` bytes,
/// which together are all of its bytes.
#[inline(always)]
fn are_ends_printable(text: &[u8], len: usize) -> bool
    // The text has at least `len` bytes.
    requires within { len ≤ length text.now }
    // The text has at most twice `len` bytes.
    requires all { length text.now ≤ len + len }
    ensures { result ≡ list_all is_printable text.now }
{
    // The index at which the last `len` bytes begin.
    let last = text.len() - len;
    is_window_printable(&text[..len]) & is_window_printable(&text[last..last + len])
}

/// Whether every byte of a window (a part of a text) is printable. The loop never ends early, so
/// the compiler can test all bytes at once if it knows their number.
#[inline(always)]
#[tactic(auto, using(crate::proofs::Pieces::printable_next, crate::proofs::Pieces::printable_over))]
fn is_window_printable(window: &[u8]) -> bool
    ensures { result ≡ list_all is_printable window.now }
{
    let mut all = true;
    for byte in window {
        all &= is_printable_byte(*byte);
    }
    all
}

/// Whether a byte is a space or a visible character of ASCII: 0x20 to 0x7e.
fn is_printable_byte(byte: u8) -> bool
    ensures { result ≡ is_printable byte }
{
    byte >= 0x20 && byte <= 0x7e
}

/// How the next line starts: how deep it is, and whether it is already begun.
#[derive(Clone, Copy)]
pub(crate) struct LineStart {
    /// The depth of the line, in levels of two spaces.
    pub(crate) depth: u32,
    /// Whether the line is already begun: its spaces, and a dash or a field's name, are written.
    pub(crate) begun: bool,
}

impl LineStart {
    /// How many levels of two spaces are still to be written in front of the line.
    fn levels(self) -> u32
        ensures { margin result ≡ margin_unless_begun self.depth self.begun }
    {
        if self.begun { 0 } else { self.depth }
    }
}

/// Writes the missing spaces of the next line, and then what `front` has after its sixteen spaces.
/// Both are written by one call, unless the line is deeper than eight levels.
#[inline(always)]
fn write_front<O: Out>(out: &mut O, start: LineStart, front: &[u8]) -> Result<(), AllocError>
    // The front begins with eight levels (`FRONT_LEVELS`), which are sixteen spaces (`FRONT_LEN`).
    requires spaces { front.now ≡ margin 8 ++ drop 16 front.now }
    // The front has at least these spaces.
    requires len { 16 ≤ length front.now }
    // On Ok, the missing spaces are written, and what the front has after its sixteen spaces.
    ensures { OnOk result (PutsForAnyPayload O.holds out.old out.new
        (margin_unless_begun start.depth start.begun ++ drop 16 front.now)) }
{
    let levels = start.levels();
    if levels <= FRONT_LEVELS {
        // Of the sixteen spaces only as many are written as the line still needs.
        return out.put(&front[FRONT_LEN - 2 * levels as usize..]);
    }
    write_levels(out, levels)?;
    out.put(&front[FRONT_LEN..])?;
    Ok(())
}

/// Puts two spaces for each level, one level after another.
#[cold]
#[inline(never)]
fn write_levels<O: Out>(out: &mut O, levels: u32) -> Result<(), AllocError>
    ensures { OnOk result (PutsForAnyPayload O.holds out.old out.new (margin levels)) }
{
    for _level in 0..levels {
        out.put(b"  ")?;
    }
    Ok(())
}

/// Writes the missing spaces before an entry of an array, and then a dash and a space.
#[inline(always)]
pub(crate) fn write_dash<O: Out>(out: &mut O, depth: u32, begun: bool) -> Result<(), AllocError>
    // On Ok, exactly the missing spaces, the dash and a space are written.
    ensures { OnOk result (PutsForAnyPayload O.holds out.old out.new
        (margin_unless_begun depth begun ++ codes "- ")) }
{
    write_front(out, LineStart { depth, begun }, dash_front())
}

/// Writes the missing spaces before a field, the field's name, a colon and a space. The value of
/// the field follows on this line.
#[inline(always)]
pub(crate) fn write_name<O: Out>(
    out: &mut O,
    start: LineStart,
    name: FieldName,
) -> Result<(), AllocError>
    // On Ok, exactly the missing spaces, the name, the colon and the space are written.
    ensures { OnOk result (PutsForAnyPayload O.holds out.old out.new
        (margin_unless_begun start.depth start.begun ++ field_name_text name ++ codes ": ")) }
{
    write_front(out, start, name_front(name))
}

/// Writes the missing spaces before a field, the field's name, a colon and a line end. The value of
/// the field follows below this line.
pub(crate) fn write_name_line<O: Out>(
    out: &mut O,
    start: LineStart,
    name: FieldName,
) -> Result<(), AllocError>
    // On Ok, exactly the missing spaces, the name, the colon and the line end are written.
    ensures { OnOk result (PutsForAnyPayload O.holds out.old out.new
        (margin_unless_begun start.depth start.begun ++ field_name_text name ++ codes ":\n")) }
{
    write_lead(out, start)?;
    out.put(name.text().as_bytes())?;
    out.put(b":\n")?;
    Ok(())
}

/// Writes the spaces before the next line, or nothing if the line is already begun.
fn write_lead<O: Out>(out: &mut O, start: LineStart) -> Result<(), AllocError>
    // On Ok, exactly the missing spaces are written.
    ensures { OnOk result (PutsForAnyPayload O.holds out.old out.new
        (margin_unless_begun start.depth start.begun)) }
{
    if start.begun {
        return Ok(());
    }
    write_front(out, start, blank_front())
}
