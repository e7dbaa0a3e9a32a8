//! A cursor: a place in a dump text, at the beginning of a line. `read.rt` reads values from it.
//! The rule is in `docs/formats.md`, "Dump text": a line is indented by two spaces for each level,
//! and each line has its line end.

ghost use Rattle.std.specs.Prelude.{◌≡◌, ◌+◌, ◌≤◌, ◌<◌, ◌^◌, [], ◌∷◌, length, MatchOption, option_copied};
ghost use Rattle.adb_dump.specs.Margin.{margin};
ghost use Rattle.adb_dump.specs.ReadBack.{strip_prefix};
ghost use Rattle.gen_core.specs.declared.generate.GenFault.TheVariants.{Bad};
ghost use Rattle.gen_core.specs.Cursors.{cursor_after_line, cursor_at_entry, block_at, cursor_from_parts, line_of_block};
ghost use Rattle.gen_core.specs.Generated.{whole_lines_and_rest};

use crate::generate::GenFault;
use memchr::memchr;
use std::marker::Model;

/// A place in a text, at the beginning of a line (the current line).
#[derive(Drop)]
pub(crate) struct Cursor<'a> {
    /// The current line, without the indentation that was read; None if no whole line is left.
    line: Option<&'a [u8]>,
    /// How many levels (of two spaces) of the current line's indentation were read.
    levels: u32,
    /// The bytes of the text after the current line and its line end.
    rest: &'a [u8],
    /// The number of the current line, counted from 1.
    number: u64,
}

impl<'a> Model for Cursor<'a> {
    ghost use Rattle.std.specs.Prelude.{◌+◌, ◌<◌, ◌^◌, length, option_copied};
    ghost use Rattle.gen_core.specs.Cursors.{CursorState, cursor_from_parts, line_end_count, lines_at_cursor};

    // What contracts see of a cursor.
    ghost Value = { CursorState };

    // Contracts see the lines that are left, the number of the current line, and the levels read.
    ghost view = { λ c. cursor_from_parts (lines_at_cursor c.levels
        (option_copied c.line) c.rest.now) c.number
        c.levels };

    // The number of no line overflows 64 bits.
    ghost invariant = { λ c. c.number + line_end_count (option_copied c.line) + length c.rest.now
        < 2 ^ 64 };
}

impl<'a> Cursor<'a> {
    /// The beginning of a text.
    pub(crate) fn new(text: &'a [u8]) -> Cursor<'a>
        ensures { result ≡ cursor_from_parts (whole_lines_and_rest text.entry.now).0 1 0 }
    {
        Cursor::at(text, 1)
    }

    /// The place at the beginning of these bytes, the first line of which has this number.
    fn at(text: &'a [u8], number: u64) -> Cursor<'a>
        // Line numbers fit into 64 bits.
        requires { number + length text.now < 2 ^ 64 }
        ensures { result ≡ cursor_from_parts (whole_lines_and_rest text.entry.now).0 number 0 }
    {
        match first_line(text) {
            Some((line, rest)) => Cursor {
                line: Some(line),
                levels: 0,
                rest,
                number,
            },
            None => Cursor {
                line: None,
                levels: 0,
                rest: text,
                number,
            },
        }
    }

    /// Goes to the next line; if no line is left, nothing changes.
    pub(crate) fn turn(&mut self)
        ensures { self.new ≡ cursor_after_line self.old.lines self.old }
    {
        if self.line.is_none() {
            return;
        }
        *self = Cursor::at(self.rest, self.number + 1);
    }

    /// The first line of the block of this depth, without its levels; None if the block has no
    /// line.
    pub(crate) fn at_depth(&self, depth: u32) -> Option<&'a [u8]>
        // At most `depth` levels of the current line's indentation were read before.
        requires { self.now.levels ≤ depth }
        ensures { option_copied result ≡ line_of_block (block_at depth self.now.lines).0 }
    {
        match self.line {
            Some(line) => without_levels(line, depth - self.levels),
            None => None,
        }
    }

    /// Reads the dash of an array's entry. `entry` is the rest of the line after the dash, and
    /// counts as a line of this depth.
    pub(crate) fn read_dash(&mut self, entry: &'a [u8], depth: u32)
        ensures { self.new ≡ cursor_at_entry depth entry.entry.now self.old.lines self.old }
    {
        if self.line.is_some() {
            self.line = Some(entry);
            self.levels = depth;
        }
    }

    /// The fault that the current line is bad, with its number.
    pub(crate) fn bad_line(&self) -> GenFault
        ensures { result ≡ Bad self.now.number }
    {
        GenFault::Bad { line: self.number }
    }
}

/// The first line of a text, without its line end, and the bytes after it; None if the text has no
/// line end.
fn first_line(text: &[u8]) -> Option<(&[u8], &[u8])>
    // The first line is the first of the text's lines, and the rest has the others.
    ensures lines { MatchOption result ((whole_lines_and_rest text.entry.now).0 ≡ [])
        (λ found. (whole_lines_and_rest text.entry.now).0
        ≡ found.0.now ∷ (whole_lines_and_rest found.1.now).0) }
    // Fewer bytes are left than before, so that a loop ends.
    ensures shorter { MatchOption result (0 ≤ length text.entry.now)
        (λ found. length found.1.now < length text.entry.now) }
{
    match memchr(b'\n', text) {
        Some(end) => Some((&text[..end], &text[end + 1..])),
        None => None,
    }
}

/// A line without `levels` levels (of two spaces) in front; None if the line has fewer.
fn without_levels(line: &[u8], levels: u32) -> Option<&[u8]>
    ensures { option_copied result ≡ strip_prefix (margin levels) line.entry.now }
{
    let mut inner = line;
    for _level in 0..levels {
        match without_prefix(inner, b"  ") {
            Some(deeper) => inner = deeper,
            None => return None,
        }
    }
    Some(inner)
}

/// The rest of a line after a prefix, if the line begins with this prefix.
pub(crate) fn without_prefix<'a>(line: &'a [u8], prefix: &[u8]) -> Option<&'a [u8]>
    ensures { option_copied result ≡ strip_prefix prefix.now line.entry.now }
{
    // A prefix is short: comparing it byte by byte takes less time than by groups of bytes.
    let mut rest = line;
    for byte in prefix {
        let Some((first, further)) = rest.split_first() else {
            return None;
        };
        if first != byte {
            return None;
        }
        rest = further;
    }
    Some(rest)
}
