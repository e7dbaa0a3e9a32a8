//! The kinds of a single text: a file, a path, a script, a number. The rules are in
//! `docs/commands.md`, "Words", the last paragraph; the types of scripts in "`mkpkg`", the number
//! in "`demo N`".
ghost use Rattle.std.specs.Prelude.{◌≡◌, ◌==◌, IfOk, drop};
ghost use Rattle.std.specs.Char.{is_ascii_digit, is_ascii_graphic};
ghost use Rattle.std.specs.List.{list_all, list_any, position};
ghost use Rattle.std.specs.Str.{bytes_eq};
ghost use Rattle.command_core.specs.Files.{is_file_argument, is_file_argument_within_output_length, is_name_with_optional_leading_slash, without_one_leading_dot_slash};
ghost use Rattle.command_core.specs.Named.{file_name};
ghost use Rattle.command_core.specs.Operands.{has_superfluous_leading_zero, is_decimal_without_leading_zeros, is_demo_number, is_pattern};
ghost use Rattle.command_core.specs.Values.{colon, is_script_argument, script_file, script_type, script_types};

use base_core::{Name, is_name};
use dep_core::without_leading_slash;
use std::alloc::{AllocError, Global};
use std::str;

/// The longest path of a file that is made, in bytes: with `.apk-tmp` after it, eight bytes more,
/// it is still a name, which has at most 1,024.
pub const LONGEST_OUTPUT: usize = 1016;

// The largest number of packages that `demo` makes.
const LARGEST_DEMO: u32 = 20000;

// The types of a package's scripts (`docs/commands.md`, "`mkpkg`").
static SCRIPT_TYPES: [&[u8]; 7] = [
    b"trigger",
    b"pre-install",
    b"post-install",
    b"pre-deinstall",
    b"post-deinstall",
    b"pre-upgrade",
    b"post-upgrade",
];

/// A text without one leading `./`.
pub fn without_one_leading_dot_slash(text: &[u8]) -> &[u8]
    ensures { result.now ≡ without_one_leading_dot_slash text.now }
{
    if text.starts_with(b"./".as_slice()) {
        &text[2..]
    } else {
        text
    }
}

/// Whether a text can name a file: after one optional `./` it is a valid path below the root.
/// Whether the file exists does not matter.
pub(crate) fn is_file_argument(text: &[u8]) -> bool
    ensures { result ≡ is_file_argument text.now }
{
    is_name(without_one_leading_dot_slash(text))
}

/// The name of the file that a text names: the text without one leading `./`. None if that is no
/// valid name.
pub(crate) fn file_name(alloc: Global, text: &[u8]) -> Result<Option<Name>, AllocError>
    ensures { IfOk result (λ file. file ≡ file_name text.now) }
{
    Name::read(alloc, without_one_leading_dot_slash(text))
}

/// Whether a text can name a file that is to be written: its path, without one leading `./`, has at
/// most 1,016 bytes.
pub(crate) fn is_file_argument_within_output_length(text: &[u8]) -> bool
    ensures { result ≡ is_file_argument_within_output_length text.now }
{
    if !is_file_argument(text) {
        return false;
    }
    without_one_leading_dot_slash(text).len() <= LONGEST_OUTPUT
}

/// Whether a text is a path below the root, after one optional `/`.
pub(crate) fn is_name_with_optional_leading_slash(text: &[u8]) -> bool
    ensures { result ≡ is_name_with_optional_leading_slash text.now }
{
    is_name(without_leading_slash(text))
}

/// Whether a text is TYPE:FILE, with the type of a package's script.
pub(crate) fn is_script_argument(text: &[u8]) -> bool
    ensures { result ≡ is_script_argument text.now }
{
    if !is_script_type(script_type(text)) {
        return false;
    }
    is_file_argument(script_file(text))
}

// Whether a text is the type of a package's script.
fn is_script_type(text: &[u8]) -> bool
    ensures { result ≡ list_any (λ t. bytes_eq t text.now) script_types }
{
    is_among(&SCRIPT_TYPES, text)
}

/// Whether the text is one of the texts in the list.
pub fn is_among(texts: &[&[u8]], text: &[u8]) -> bool
    ensures { result ≡ list_any (λ one. bytes_eq one.now text.now) texts.now }
{
    texts.iter().any(|one| *one == text)
}

/// The type of a script: the part of TYPE:FILE before the first `:`, or all if there is none.
pub(crate) fn script_type(text: &[u8]) -> &[u8]
    ensures { result.now ≡ script_type text.now }
{
    match colon(text) {
        Some(i) => &text[..i],
        None => text,
    }
}

/// The file of a script: the part of TYPE:FILE after the first `:`, or nothing if there is none.
pub(crate) fn script_file(text: &[u8]) -> &[u8]
    ensures { result.now ≡ script_file text.now }
{
    match colon(text) {
        Some(i) => &text[i + 1..],
        None => b"",
    }
}

// The index of the first `:` in TYPE:FILE, which separates the type of a script from its file.
fn colon(text: &[u8]) -> Option<usize>
    ensures { result ≡ position (λ b. b == colon) text.now }
{
    text.iter().position(|byte| *byte == b':')
}

/// Whether a text is a pattern: one byte or more, each a visible ASCII character (0x21 to 0x7e).
pub(crate) fn is_pattern(text: &[u8]) -> bool
    ensures { result ≡ is_pattern text.now }
{
    if text.is_empty() {
        return false;
    }
    are_visible(text)
}

/// Whether all bytes of a text are visible ASCII characters.
fn are_visible(text: &[u8]) -> bool
    ensures { result ≡ list_all is_ascii_graphic text.now }
{
    text.iter().all(|byte| byte.is_ascii_graphic())
}

/// Whether a text is a number of packages for `demo`: decimal, from 1 to 20,000, without leading
/// zeros.
pub(crate) fn is_demo_number(text: &[u8]) -> bool
    ensures { result ≡ is_demo_number text.now }
{
    if !is_decimal_without_leading_zeros(text) {
        return false;
    }
    // All bytes are digits here, so `parse` fails only for a number of more than 32 bits.
    match str::from_utf8(text) {
        Ok(digits) => match digits.parse::<u32>() {
            Ok(number) => 0 < number && number <= LARGEST_DEMO,
            Err(_) => false,
        },
        Err(_) => false,
    }
}

/// Whether a text is a decimal number without leading zeros.
pub fn is_decimal_without_leading_zeros(text: &[u8]) -> bool
    ensures { result ≡ is_decimal_without_leading_zeros text.now }
{
    if text.is_empty() || has_superfluous_leading_zero(text) {
        return false;
    }
    are_digits(text)
}

/// Whether a text begins with a zero and goes on after it.
fn has_superfluous_leading_zero(text: &[u8]) -> bool
    ensures { result ≡ has_superfluous_leading_zero text.now }
{
    match text.split_first() {
        Some((b'0', rest)) => !rest.is_empty(),
        _ => false,
    }
}

/// Whether all bytes of a text are decimal digits.
fn are_digits(text: &[u8]) -> bool
    ensures { result ≡ list_all is_ascii_digit text.now }
{
    text.iter().all(|digit| digit.is_ascii_digit())
}
