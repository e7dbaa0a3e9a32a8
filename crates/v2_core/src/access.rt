//! The access of a file or a folder, its owner and mode: `uid:gid:mode`. `line.rt` calls
//! `read_access`.
//! The rules are in `docs/formats.md`, "Text database of version 2", the rows M and a and the
//! paragraph after the table.
ghost use Rattle.std.specs.List.{list_all};
ghost use Rattle.std.specs.Option.{option_map};
ghost use Rattle.std.specs.Prelude.{◌≡◌, ◌==◌, ◌<◌, IfSome, length, position, true};
ghost use Rattle.std.specs.Char.{is_ascii_digit};
ghost use Rattle.v2_core.specs.Accesses.{access_in, access_view, before_colon, after_colon, is_uid_or_gid, is_octal, is_octal_digit, octal_number};

use std::str;

/// The byte between the parts of `uid:gid:mode`.
const COLON: u8 = b':';

/// The owner of a file or a folder, and its mode.
#[derive(Clone, Copy)]
pub(crate) struct Access<'a> {
    /// The user's number, in decimal digits.
    pub user: &'a [u8],
    /// The group's number, in decimal digits.
    pub group: &'a [u8],
    /// The mode: a number that the text gives in octal digits.
    pub mode: u64,
}

/// Reads the owner and mode of a file or a folder, `uid:gid:mode`. Parts after the third are
/// skipped. None is returned exactly if the user or the group is no decimal number, or the mode is
/// no octal number below 2^64.
pub(crate) fn read_access(text: &[u8]) -> Option<Access<'_>>
    ensures { option_map access_view result ≡ access_in text.now }
{
    let user = before_colon(text);
    let rest = after_colon(text);
    let group = before_colon(rest);
    if !is_uid_or_gid(user) || !is_uid_or_gid(group) {
        return None;
    }
    let mode = read_octal(before_colon(after_colon(rest)))?;
    Some(Access { user, group, mode })
}

// The index of the first colon, counted from 0.
fn colon_in(text: &[u8]) -> Option<usize>
    // The result is the index of the first colon, or None if there is no colon.
    ensures at { result ≡ position (λ b. b == COLON) text.now }
    // An index that is returned is within the text.
    ensures within { IfSome result (λ at. at < length text.now) }
{
    text.iter().position(|byte| *byte == COLON)
}

// The text before the first colon; all if there is none.
fn before_colon(text: &[u8]) -> &[u8]
    ensures { result.now ≡ before_colon text.now }
{
    match colon_in(text) {
        Some(at) => &text[..at],
        None => text,
    }
}

// The text after the first colon; nothing if there is none.
fn after_colon(text: &[u8]) -> &[u8]
    ensures { result.now ≡ after_colon text.now }
{
    match colon_in(text) {
        Some(at) => &text[at + 1..],
        None => &[],
    }
}

// Whether a text is the number of a user or a group: one or more decimal digits.
fn is_uid_or_gid(text: &[u8]) -> bool
    ensures { result ≡ is_uid_or_gid text.now }
{
    !text.is_empty() && are_digits(text)
}

// Whether all bytes are decimal digits; true of no bytes.
fn are_digits(text: &[u8]) -> bool
    ensures { result ≡ list_all is_ascii_digit text.now }
{
    text.iter().all(|byte| byte.is_ascii_digit())
}

// The number that octal digits encode. None: there are none, or it is above 2^64 - 1.
fn read_octal(digits: &[u8]) -> Option<u64>
    ensures { result ≡ octal_number digits.now }
{
    if !is_octal(digits) {
        return None;
    }
    match str::from_utf8(digits) {
        Ok(text) => u64::from_str_radix(text, 8).ok(),
        Err(_) => None,
    }
}

// Whether a text is one or more octal digits.
fn is_octal(text: &[u8]) -> bool
    ensures { result ≡ is_octal text.now }
{
    !text.is_empty() && are_octal_digits(text)
}

// Whether all bytes are octal digits.
fn are_octal_digits(text: &[u8]) -> bool
    ensures { result ≡ list_all is_octal_digit text.now }
{
    text.iter().all(|byte| is_octal_digit(*byte))
}

// Whether a byte is `0` to `7`.
fn is_octal_digit(byte: u8) -> bool
    ensures { result ≡ is_octal_digit byte }
{
    matches!(byte, b'0'..=b'7')
}
