//! The order of two versions. Their common prefix is skipped as plain bytes, whole blocks first,
//! and the tokens are read from the last mark in this prefix on. A *mark* is a byte that begins a
//! token: `.`, `_`, `~` or `-`. Within a hash there is no mark; outside of a hash, marks are near
//! each other. The rule is in `docs/formats.md`, "Versions" ("A version is compared by its
//! tokens").

ghost use Rattle.std.specs.Prelude.{◌≡◌, ◌≤◌, ◌<◌, IsTrue, IfSome, IfNone, Some, length, take, drop};
ghost use Rattle.std.specs.Cmp.Lexicographic.{slice_cmp};
ghost use Rattle.version_core.specs.declared.token.Class.TheVariants.{Component};
ghost use Rattle.version_core.specs.Order.{is_version, token_cmp, tokens_after_class_skipping_bytes, version_cmp};
ghost use Rattle.version_core.specs.Reading.{AreEqualUpTo, AreEqualUpToParting, HasUnmarkedEnd, IsLastMark, hash_cmp, is_token_mark, tokens_left};

use crate::lexeme::{behind, compare_hex_digits};
use crate::token::{Class, Tokens};
use std::cmp::Ordering;

/// How many bytes one comparison of slices compares; the result does not depend on this number.
const BYTES_PER_COMPARISON: usize = 128;

/// The most bytes in a row, outside of a hash, none of which is a mark: the word `alpha` of a
/// suffix, and the 18 digits of its number.
const MOST_UNMARKED: usize = 23;

/// The place from which two versions have to be read: both are equal before this place.
#[derive(Clone, Copy)]
pub enum Parting {
    /// The start of both versions.
    AtFront,
    /// A mark at this offset in both versions.
    AtMark(usize),
    /// This offset, which is within the hash of each version.
    InHash(usize),
}

/// The order of two versions: the first tokens that differ decide.
pub fn compare(left: &[u8], right: &[u8]) -> Ordering
    // The first text is a version.
    requires left { IsTrue (is_version left.now) }
    // The second text is a version.
    requires right { IsTrue (is_version right.now) }
    ensures { result ≡ version_cmp left.now right.now }
{
    match parting_of(left, right) {
        Parting::AtFront => compare_tokens(Tokens::of(left), Tokens::of(right)),
        Parting::AtMark(at) => {
            compare_tokens(tokens_from_mark(left, at), tokens_from_mark(right, at))
        }
        Parting::InHash(len) => compare_within_hash(behind(left, len), behind(right, len)),
    }
}

/// The place from which two versions have to be read. Their common prefix is skipped.
pub fn parting_of(left: &[u8], right: &[u8]) -> Parting
    // The first text is a version.
    requires { IsTrue (is_version left.now) }
    // Both texts are equal before the returned place.
    ensures { AreEqualUpToParting left.now right.now result }
{
    // The length of the common prefix, and the index of the last mark in it.
    let len = equal_len(left, right);
    let Some(at) = last_mark(&left[..len]) else {
        return parting_without_mark(left, right, len);
    };
    if left[at] == b'~' {
        return Parting::InHash(len);
    }
    Parting::AtMark(at)
}

/// The same as `parting_of`, for two versions whose first `len` bytes are equal and have no mark
/// among the last `MOST_UNMARKED` + 1. Either `len` is small, or these bytes end within a hash.
fn parting_without_mark(left: &[u8], right: &[u8], len: usize) -> Parting
    // The first text is a version.
    requires version { IsTrue (is_version left.now) }
    // The first `len` bytes of both versions are equal.
    requires equal { AreEqualUpTo left.now right.now len }
    // The last bytes of this prefix, `MOST_UNMARKED` and one more, have no mark.
    requires unmarked { HasUnmarkedEnd (take len left.now) }
    // Both texts are equal before the returned place.
    ensures { AreEqualUpToParting left.now right.now result }
{
    if len <= MOST_UNMARKED {
        return Parting::AtFront;
    }
    Parting::InHash(len)
}

/// The tokens of a version from the mark at the index `at` on. These tokens do not depend on the
/// token before the mark, so the code assumes a component before it.
pub fn tokens_from_mark(text: &[u8], at: usize) -> Tokens<'_>
    // The offset is within the text.
    requires { at ≤ length text.now }
    ensures { tokens_left result
        ≡ tokens_after_class_skipping_bytes (Some Component) 0 (drop at text.now) }
{
    Tokens::behind(Class::Component, behind(text, at))
}

/// The order of two versions that are equal up to a place within the hash of both, given what
/// follows this place in each.
fn compare_within_hash(left: &[u8], right: &[u8]) -> Ordering
    ensures { result ≡ hash_cmp left.now right.now }
{
    let by_digits = compare_hex_digits(left, right);
    if by_digits.is_ne() {
        return by_digits;
    }
    let class = Class::Hash;
    compare_tokens(Tokens::behind(class, left), Tokens::behind(class, right))
}

/// The order of the tokens that two readers have not taken yet: the first that differ decide.
fn compare_tokens(left: Tokens<'_>, right: Tokens<'_>) -> Ordering
    ensures { result ≡ slice_cmp token_cmp (tokens_left left.entry) (tokens_left right.entry) }
{
    let mut left_tokens = left;
    let mut right_tokens = right;
    loop {
        let token = left_tokens.next();
        let order = token.compare(&right_tokens.next());
        if order.is_ne() || token.class.is_end_or_stray_class() {
            return order;
        }
    }
}

/// The length of the longest common prefix of two texts; contracts say only that it is common.
fn equal_len(left: &[u8], right: &[u8]) -> usize
    ensures { AreEqualUpTo left.now right.now result }
{
    // The most bytes that the common prefix can have, and how many are known to be equal.
    let most = left.len().min(right.len());
    let mut len = equal_blocks(left, right);
    while len < most && left[len] == right[len] {
        len += 1;
    }
    len
}

/// How many bytes of the common prefix are in whole equal blocks. Comparing slices is faster than
/// comparing byte by byte.
fn equal_blocks(left: &[u8], right: &[u8]) -> usize
    ensures { AreEqualUpTo left.now right.now result }
{
    // The most bytes that the common prefix can have, and how many are known to be equal.
    let most = left.len().min(right.len());
    let mut len = 0;
    while most - len >= BYTES_PER_COMPARISON
        && left[len..len + BYTES_PER_COMPARISON] == right[len..len + BYTES_PER_COMPARISON]
    {
        len += BYTES_PER_COMPARISON;
    }
    len
}

/// The index of the last mark, a byte that begins a token wherever it occurs. None if none of the
/// last `MOST_UNMARKED` + 1 bytes is a mark.
fn last_mark(text: &[u8]) -> Option<usize>
    // An index that is returned is that of the last mark.
    ensures some { IfSome result (IsLastMark text.now) }
    // Without an index, the last bytes of the text have no mark.
    ensures none { IfNone result (HasUnmarkedEnd text.now) }
{
    // The least index that is searched; the search goes from the end of the text down to it.
    let least = text.len().saturating_sub(MOST_UNMARKED + 1);
    let mut at = text.len();
    while at > least {
        at -= 1;
        if is_token_mark(text[at]) {
            return Some(at);
        }
    }
    None
}

/// Whether a byte begins a token wherever it occurs.
fn is_token_mark(byte: u8) -> bool
    ensures { result ≡ is_token_mark byte }
{
    matches!(byte, b'.' | b'_' | b'~' | b'-')
}
