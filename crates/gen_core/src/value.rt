//! Values that have one line each: integers, texts and hashes.
//! The rules are in `docs/formats.md`, "Dump text": each value has one form on its line, and a line
//! of any other form is bad.

ghost use Rattle.std.specs.Prelude.{◌≡◌, ◌≢◌, ℕ, ◌<◌, ◌^◌, ◌++◌, IfOk, IfSome, IsTrue, ◌↔◌, MatchOption, codes, false, option_map};
ghost use Rattle.std.specs.Fmt.{decimal};
ghost use Rattle.hex.specs.Hex.{encode_lower};
ghost use Rattle.adb_dump.specs.Dump.{begins_with_byte, is_printable, bare_or_quoted_text};
ghost use Rattle.gen_core.specs.Reads.{IsFormOf};
ghost use Rattle.gen_core.specs.Quoted.{escaped_at, hex_byte_at, hex_digit_value, unescaped_at, if_only_hex};

use adb_dump::needs_no_quotes;
use itoa::Buffer;
use std::alloc::AllocError;

/// The integer whose decimal digits are the line; None if there is no such integer below 2^64.
pub(crate) fn number_in(line: &[u8]) -> Option<u64>
    // A number is below 2^64 and has these digits; None means that no such number has them.
    ensures { MatchOption result ((n : ℕ) → n < 2 ^ 64 → decimal n ≢ line.now)
        (λ n. (n < 2 ^ 64) × (decimal n ≡ line.now)) }
{
    let Ok(text) = str::from_utf8(line) else {
        return None;
    };
    let Ok(number) = text.parse::<u64>() else {
        return None;
    };
    if !is_decimal_of(number, line) {
        return None;
    }
    Some(number)
}

/// Whether a line is the decimal digits of a number, without a zero in front.
fn is_decimal_of(number: u64, line: &[u8]) -> bool
    ensures { IsTrue result ↔ (decimal number ≡ line.now) }
{
    let mut digits = Buffer::new();
    digits.format(number).as_bytes() == line
}

/// Reads the bytes of a hash from its line into `bytes`, in place of what was there; false if no
/// hash has this line.
pub(crate) fn read_hash(bytes: &mut Vec<u8>, line: &[u8]) -> Result<bool, AllocError>
    ensures { IfOk result (λ is. IsFormOf encode_lower is bytes.new.items line.now) }
{
    if line.is_empty() {
        return Ok(false);
    }
    bytes.clear();
    let mut rest = line;
    while let Some((byte, further)) = hex_byte(rest) {
        bytes.push(byte)?;
        rest = further;
    }
    Ok(rest.is_empty())
}

/// The byte that the first two hexadecimal digits of a text encode, and what follows them.
fn hex_byte(text: &[u8]) -> Option<(u8, &[u8])>
    ensures { option_map (λ first. (first.0, first.1.now)) result ≡ hex_byte_at text.entry.now }
{
    let (high, text) = text.split_first()?;
    let (low, text) = text.split_first()?;
    Some((hex_digit(*high)? * 16 + hex_digit(*low)?, text))
}

/// The value of a hexadecimal digit in lower case.
fn hex_digit(digit: u8) -> Option<u8>
    // The result is the value of the digit, or None.
    ensures value { result ≡ hex_digit_value digit }
    // The value of a digit is below 16.
    ensures small { IfSome result (λ value. value < 16) }
{
    match digit {
        b'0'..=b'9' => Some(digit - b'0'),
        b'a'..=b'f' => Some(digit - b'a' + 10),
        _ => None,
    }
}

/// Reads the bytes of a text from its line into `bytes`, in place of what was there; false if no
/// text has this line.
pub(crate) fn read_text(bytes: &mut Vec<u8>, line: &[u8]) -> Result<bool, AllocError>
    ensures { IfOk result (λ is. IsFormOf bare_or_quoted_text is bytes.new.items line.now) }
{
    match line.split_first() {
        Some((b'"', quoted)) => read_quoted(bytes, quoted),
        _ => read_bare(bytes, line),
    }
}

/// Reads a text that is on its line as it is, without quotes; false if no text has this line.
fn read_bare(bytes: &mut Vec<u8>, line: &[u8]) -> Result<bool, AllocError>
    // The line does not begin with a quote (0x22).
    requires { begins_with_byte 0x22 line.now ≡ false }
    ensures { IfOk result (λ is. IsFormOf bare_or_quoted_text is bytes.new.items line.now) }
{
    if line.is_empty() {
        return Ok(false);
    }
    if !needs_no_quotes(line) {
        return Ok(false);
    }
    bytes.clear();
    bytes.extend_from_slice(line)?;
    Ok(true)
}

/// Reads a text between quotes; `quoted` is the rest of the line after the first quote. False if no
/// text has this line.
fn read_quoted(bytes: &mut Vec<u8>, quoted: &[u8]) -> Result<bool, AllocError>
    // On Ok true, the bytes are written as a quote and `quoted`; on Ok false, no bytes are.
    ensures { IfOk result (λ is. IsFormOf bare_or_quoted_text is bytes.new.items (codes "\""
        ++ quoted.now)) }
{
    // The text between the quotes is empty, and no line represents an empty text.
    if is_quote(quoted) {
        return Ok(false);
    }
    bytes.clear();
    let mut rest = quoted;
    while let Some((byte, further)) = unescaped(rest) {
        bytes.push(byte)?;
        rest = further;
    }
    if !is_quote(rest) {
        return Ok(false);
    }
    // A text that needs no quotes is written without them, so its form between quotes is bad.
    Ok(!needs_no_quotes(bytes))
}

/// Whether a text is a single quote, with which a line ends.
fn is_quote(text: &[u8]) -> bool
    ensures { IsTrue result ↔ (text.now ≡ codes "\"") }
{
    text == b"\"".as_slice()
}

/// The byte that comes first between quotes, and what follows it; None if no byte has such a form.
fn unescaped(text: &[u8]) -> Option<(u8, &[u8])>
    ensures { option_map (λ first. (first.0, first.1.now)) result ≡ unescaped_at text.entry.now }
{
    match text.split_first() {
        Some((b'\\', further)) => escaped(further),
        Some((b'"', _)) => None,
        Some((byte, further)) => {
            if is_printable_byte(*byte) {
                Some((*byte, further))
            } else {
                None
            }
        }
        None => None,
    }
}

/// The byte of an escape, from after its backslash on, and what follows the escape.
fn escaped(text: &[u8]) -> Option<(u8, &[u8])>
    ensures { option_map (λ first. (first.0, first.1.now)) result ≡ escaped_at text.entry.now }
{
    match text.split_first() {
        Some((b'n', further)) => Some((b'\n', further)),
        Some((b'\\', further)) => Some((b'\\', further)),
        Some((b'"', further)) => Some((b'"', further)),
        Some((b'x', further)) => if_only_hex(hex_byte(further)),
        _ => None,
    }
}

/// The first byte of a text and what follows it, if two hexadecimal digits are the only form of
/// this byte between quotes.
fn if_only_hex(first: Option<(u8, &[u8])>) -> Option<(u8, &[u8])>
    // The result is `first`, or None if this byte has a shorter form.
    ensures { option_map (λ first. (first.0, first.1.now)) result
        ≡ if_only_hex (option_map (λ first. (first.0, first.1.now)) first.entry) }
{
    let (byte, further) = first?;
    // A line end is written as `\n`, and a printable byte as it is or after a backslash.
    if byte == b'\n' {
        return None;
    }
    if is_printable_byte(byte) {
        return None;
    }
    Some((byte, further))
}

/// Whether a byte is a space or a visible character of ASCII: 0x20 to 0x7e.
fn is_printable_byte(byte: u8) -> bool
    ensures { result ≡ is_printable byte }
{
    byte >= 0x20 && byte <= 0x7e
}
