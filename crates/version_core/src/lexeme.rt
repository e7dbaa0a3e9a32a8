//! Reads the first token of a text, and how many bytes the reader then skips. `token` and
//! `overlapping` use it. The grammar of the tokens is in `docs/formats.md`, "Versions" ("A version
//! is a number"). In the clauses `plain` says that a token is no hash, so the reader skips all of
//! its bytes at once. `digits` and `few` say that bytes are digits, and few enough for 64 bits.

ghost use Rattle.std.specs.Prelude.{◌≡◌, ◌≤◌, ◌<◌, false, length, drop, position, not};
ghost use Rattle.std.specs.List.{take_while};
ghost use Rattle.std.specs.Ordering.{nat_cmp};
ghost use Rattle.std.specs.Cmp.Lexicographic.{slice_cmp};
ghost use Rattle.std.specs.Str.Parse.{digits_value};
ghost use Rattle.version_core.specs.Token.{begins_with_zero, later_component_lexeme_by_digits, leading_digits, hash_lexeme_by_hex_digits, leading_hex_digits, is_hex_digit, lexeme, lexeme_at, next_lexeme, number_lexeme_by_digits, number_token, revision_lexeme_by_text_after_hyphen, stray_lexeme, suffix_class, suffix_lexeme_by_word, suffix_rank, leading_letters, text_token, MOST_DIGITS};
ghost use Rattle.version_core.specs.Overlapping.{passed_len};
ghost use Rattle.version_core.specs.Reading.{AreDigits, hex_digit_at, is_hash, is_in_run, lexeme_view, whole_lexeme};

use crate::token::{Class, TokenAt};
use std::cmp::Ordering;

/// The most digits that a number may have, so that it fits into 64 bits (a limit of this project).
const MOST_DIGITS: usize = 18;

/// A token, and how many bytes its reader skips: all of its bytes, but only the mark of a hash. So
/// a long hash is read only when it is compared.
#[derive(Clone, Copy)]
pub struct Lexeme<'a> {
    /// The token that was read.
    pub token: TokenAt<'a>,
    /// How many bytes the reader skips.
    pub advance: usize,
}

/// A kind of bytes of which a text may begin with a run.
#[derive(Clone, Copy)]
enum Run {
    /// Decimal digits.
    Digits,
    /// Lower-case letters.
    Letters,
    /// Lower-case hexadecimal digits.
    HexDigits,
}

impl Run {
    /// Whether a byte may be in a run of this kind.
    fn has(self, byte: u8) -> bool
        ensures { result ≡ is_in_run self byte }
    {
        match self {
            Run::Digits => byte.is_ascii_digit(),
            Run::Letters => byte.is_ascii_lowercase(),
            Run::HexDigits => is_hex_digit(byte),
        }
    }
}

/// The lexeme of a token that is compared by a number; `advance` is how many bytes the token has.
fn lexeme_of_number<'a>(class: Class, number: u64, advance: usize) -> Lexeme<'a>
    // The lexeme has a token of this class and number, and this width.
    ensures token { whole_lexeme result ≡ lexeme (number_token class number) advance }
    // The token has this class.
    ensures class { result.token.class ≡ class }
{
    let token = TokenAt {
        class,
        number,
        text: &[],
    };
    Lexeme { token, advance }
}

/// The lexeme of a token that is compared as text; `advance` is how many bytes its reader skips.
fn lexeme_of_text(class: Class, text: &[u8], advance: usize) -> Lexeme<'_>
    // The lexeme has a token of this class and of the hexadecimal digits, and this width.
    ensures token { whole_lexeme result
        ≡ lexeme (text_token class (leading_hex_digits text.now)) advance }
    // The token has this class.
    ensures class { result.token.class ≡ class }
    // The token has the whole text, which may go on after its hexadecimal digits.
    ensures text { result.token.text.now ≡ text.now }
{
    let token = TokenAt {
        class,
        number: 0,
        text,
    };
    Lexeme { token, advance }
}

/// The lexeme for bytes that are no token of the grammar.
fn stray_lexeme<'a>() -> Lexeme<'a>
    ensures token { whole_lexeme result ≡ stray_lexeme }
    // The class of the token is that of bytes outside the grammar.
    ensures class { result.token.class ≡ Class.Stray }
{
    lexeme_of_number(Class::Stray, 0, 0)
}

/// The first lexeme of a text. At the start of a version (None) it is the first component;
/// otherwise the class of the token before it decides.
pub fn lexeme_at<'a>(last: Option<Class>, text: &'a [u8]) -> Lexeme<'a>
    ensures { lexeme_view text.entry.now result ≡ lexeme_at last text.entry.now }
{
    match last {
        None => number(Class::Component, 0, leading_digits(text)),
        Some(last) => next_lexeme(last, text),
    }
}

/// The class of the first token of a text, given the class `last` of the token before the text, and
/// how many bytes of the token are skipped at first: all, but of a hash only `~` and one digit.
pub fn first_token(last: Option<Class>, text: &[u8]) -> (Class, usize)
    // The first part of the result is the class of the next token.
    ensures class { result.0 ≡ (lexeme_at last text.now).token.class }
    // The second part of the result is how many of its bytes are skipped at first.
    ensures len { result.1 ≡ passed_len (lexeme_at last text.now) }
{
    let lexeme = lexeme_at(last, text);
    let class = lexeme.token.class;
    if class == Class::Hash {
        return (class, 2);
    }
    (class, lexeme.advance)
}

/// The first lexeme of a text, given the class `last` of the token before it.
#[tactic(auto, unfolding(crate::specs::Token::next_lexeme))]
fn next_lexeme<'a>(last: Class, text: &'a [u8]) -> Lexeme<'a>
    ensures { lexeme_view text.entry.now result ≡ next_lexeme last text.entry.now }
{
    // `mark` is the first byte, which decides, together with `last`, the class of the token.
    let Some((mark, rest)) = text.split_first() else {
        return lexeme_of_number(Class::End, 0, 0);
    };
    match *mark {
        b'.' if last.is_component() => component(leading_digits(rest)),
        b'a'..=b'z' if last.is_component() => lexeme_of_number(Class::Letter, u64::from(*mark), 1),
        b'_' if last.is_allowed_before_suffix_or_hash() => suffix(leading_letters(rest)),
        b'0'..=b'9' if last.is_suffix() => number(Class::SuffixNumber, 0, leading_digits(text)),
        b'~' if last.is_allowed_before_suffix_or_hash() => hash(text),
        b'-' if last.is_allowed_before_revision() => revision(rest),
        _ => stray_lexeme(),
    }
}

/// The lexeme of a number of this class, given its digits. `mark` is how many bytes are before the
/// digits: 0 (none), 1 (`.`) or 2 (`-r`).
#[tactic(auto, unfolding(crate::specs::Token::number_lexeme_by_digits))]
fn number(class: Class, mark: usize, digits: &[u8]) -> Lexeme<'_>
    // The bytes are decimal digits.
    requires digits { AreDigits digits.now }
    // The longest mark, `-r`, has two bytes.
    requires small { mark ≤ 2 }
    // The class is not that of a hash.
    requires plain { is_hash class ≡ false }
    // The lexeme is that of a number after its mark (separator).
    ensures token { whole_lexeme result ≡ number_lexeme_by_digits class mark digits.now }
    // The token is no hash.
    ensures plain { is_hash result.token.class ≡ false }
{
    if digits.is_empty() || digits.len() > MOST_DIGITS {
        return stray_lexeme();
    }
    lexeme_of_number(class, value_of(digits), mark + digits.len())
}

/// The lexeme of a component after the first, given its digits, which follow `.`. The component is
/// compared as text if it begins with 0, else as a number.
#[tactic(auto, using(crate::proofs::Lexemes::component_lexeme_zero), unfolding(crate::specs::Token::later_component_lexeme_by_digits))]
fn component(digits: &[u8]) -> Lexeme<'_>
    // The bytes are decimal digits.
    requires { AreDigits digits.now }
    // The lexeme is that of a component after the first.
    ensures token { whole_lexeme result ≡ later_component_lexeme_by_digits digits.now }
    // The token is no hash.
    ensures plain { is_hash result.token.class ≡ false }
{
    if begins_with_zero(digits) && digits.len() <= MOST_DIGITS {
        return lexeme_of_text(Class::ZeroComponent, digits, 1 + digits.len());
    }
    number(Class::Component, 1, digits)
}

/// Whether the first digit is 0.
fn begins_with_zero(digits: &[u8]) -> bool
    ensures { result ≡ begins_with_zero digits.now }
{
    matches!(digits, [b'0', ..])
}

/// The lexeme of a suffix, given the word after its mark `_`.
fn suffix(word: &[u8]) -> Lexeme<'_>
    // The lexeme is that of a suffix.
    ensures token { whole_lexeme result ≡ suffix_lexeme_by_word word.now }
    // The token is no hash.
    ensures plain { is_hash result.token.class ≡ false }
{
    match suffix_rank(word) {
        Some(rank) => lexeme_of_number(suffix_class(rank), rank, 1 + word.len()),
        None => stray_lexeme(),
    }
}

/// The rank of a suffix, given its word, in the order of suffixes, counted from 0; None if the word
/// is no suffix.
#[tactic(auto, unfolding(crate::specs::Token::suffix_rank))]
fn suffix_rank(word: &[u8]) -> Option<u64>
    ensures { result ≡ suffix_rank word.now }
{
    match word {
        b"alpha" => Some(0),
        b"beta" => Some(1),
        b"pre" => Some(2),
        b"rc" => Some(3),
        b"cvs" => Some(4),
        b"svn" => Some(5),
        b"git" => Some(6),
        b"hg" => Some(7),
        b"p" => Some(8),
        _ => None,
    }
}

/// The class of the suffix of this rank: the first four suffixes make pre-releases.
fn suffix_class(rank: u64) -> Class
    ensures { result ≡ suffix_class rank }
{
    if rank < 4 {
        Class::PreRelease
    } else {
        Class::Suffix
    }
}

/// The lexeme of a hash; the text begins with its mark, `~`.
#[tactic(auto, unfolding(crate::specs::Token::hash_lexeme_by_hex_digits))]
fn hash(text: &[u8]) -> Lexeme<'_>
    // The text is not empty.
    requires { 0 < length text.now }
    // The lexeme is that of the digits after the mark.
    ensures { lexeme_view text.now result
        ≡ hash_lexeme_by_hex_digits (leading_hex_digits (drop 1 text.now)) }
{
    let digits = behind(text, 1);
    // A hash without a digit is no token of the grammar.
    if hex_digit_at(digits, 0).is_none() {
        return stray_lexeme();
    }
    lexeme_of_text(Class::Hash, digits, 1)
}

/// The lexeme of a revision; the text begins after its `-`.
#[tactic(auto, unfolding(crate::specs::Token::revision_lexeme_by_text_after_hyphen))]
fn revision(text: &[u8]) -> Lexeme<'_>
    // The lexeme is that of a revision.
    ensures token { whole_lexeme result ≡ revision_lexeme_by_text_after_hyphen text.now }
    // The token is no hash.
    ensures plain { is_hash result.token.class ≡ false }
{
    match text.split_first() {
        Some((b'r', rest)) => number(Class::Revision, 2, leading_digits(rest)),
        _ => stray_lexeme(),
    }
}

/// The value of decimal digits; 18 of them stay below 2^64.
fn value_of(digits: &[u8]) -> u64
    // The bytes are decimal digits.
    requires digits { AreDigits digits.now }
    // There are at most 18 digits.
    requires few { length digits.now ≤ MOST_DIGITS }
    ensures { result ≡ digits_value 10 digits.now }
{
    let mut number = 0;
    for digit in digits {
        number = number * 10 + u64::from(*digit - b'0');
    }
    number
}

/// The decimal digits that a text begins with.
fn leading_digits(text: &[u8]) -> &[u8]
    ensures front { result.now ≡ leading_digits text.now }
    // Each byte of the result is a decimal digit.
    ensures digits { AreDigits result.now }
{
    leading_run(Run::Digits, text)
}

/// The lowercase letters that a text begins with.
fn leading_letters(text: &[u8]) -> &[u8]
    ensures { result.now ≡ leading_letters text.now }
{
    leading_run(Run::Letters, text)
}

/// The hexadecimal digits that a text begins with.
pub fn leading_hex_digits(text: &[u8]) -> &[u8]
    ensures { result.now ≡ leading_hex_digits text.now }
{
    leading_run(Run::HexDigits, text)
}

/// The bytes of one kind that a text begins with.
#[tactic(auto, using(crate::proofs::Runs::run_at))]
fn leading_run(kind: Run, text: &[u8]) -> &[u8]
    ensures { result.now ≡ take_while (is_in_run kind) text.now }
{
    match run_end(kind, text) {
        Some(len) => &text[..len],
        None => text,
    }
}

/// The index of the first byte that is not of this kind; None if all bytes are.
fn run_end(kind: Run, text: &[u8]) -> Option<usize>
    ensures { result ≡ position (λ b. not (is_in_run kind b)) text.now }
{
    text.iter().position(|byte| !kind.has(*byte))
}

/// Whether a byte is a lower-case hexadecimal digit.
fn is_hex_digit(byte: u8) -> bool
    ensures { result ≡ is_hex_digit byte }
{
    matches!(byte, b'0'..=b'9' | b'a'..=b'f')
}

/// The order of the hexadecimal digits that two texts begin with. Both texts are read only up to
/// the first difference.
pub fn compare_hex_digits(left: &[u8], right: &[u8]) -> Ordering
    ensures { result
        ≡ slice_cmp nat_cmp (leading_hex_digits left.now) (leading_hex_digits right.now) }
{
    let mut at = 0;
    loop {
        // The digit of the left text, or None after its last digit.
        let ours = hex_digit_at(left, at);
        let order = ours.cmp(&hex_digit_at(right, at));
        if order.is_ne() || ours.is_none() {
            return order;
        }
        at += 1;
    }
}

/// The hexadecimal digit at this index, if there is one.
fn hex_digit_at(text: &[u8], at: usize) -> Option<u8>
    ensures { result ≡ hex_digit_at text.now at }
{
    match text.get(at) {
        Some(byte) if is_hex_digit(*byte) => Some(*byte),
        _ => None,
    }
}

/// The text after its first `count` bytes.
pub fn behind(text: &[u8], count: usize) -> &[u8]
    // The text has at least so many bytes.
    requires { count ≤ length text.now }
    ensures { result.now ≡ drop count text.now }
{
    &text[count..]
}
