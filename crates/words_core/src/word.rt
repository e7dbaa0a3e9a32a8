//! The form of a single word: whether it is an option, and the parts of an option's word. The rules
//! are in `docs/commands.md`, "Words": the first paragraphs, that on values, and for places that on
//! a usage error.
ghost use Rattle.std.specs.Prelude.{◌≡◌, ◌+◌, ◌==◌, ◌<◌, IsTrue, drop};
ghost use Rattle.std.specs.List.{position};
ghost use Rattle.std.specs.Option.{option_map};
ghost use Rattle.words_core.specs.Grammar.{value_in_long_or_short_option_word, is_double_dash, is_option_or_double_dash, option_word_without_value};

/// 2^32 - 1: places count from 1 in 32 bits, and the one after the last word needs one too, so that
/// this many words are too many (`docs/commands.md`, "Answers and statuses").
pub(crate) const MOST_PLACES: usize = 4294967295;

// The sign between a long option's name and its value in the same word.
const EQUALS_SIGN: u8 = b'=';

/// Whether a word is an option, or the end of the options: two or more bytes that begin with a
/// dash.
pub(crate) fn is_option_or_double_dash(word: &[u8]) -> bool
    ensures { result ≡ is_option_or_double_dash word.now }
{
    word.len() > 1 && word.starts_with(b"-".as_slice())
}

/// Whether a word is `--`, after which there are no options.
pub(crate) fn is_double_dash(word: &[u8]) -> bool
    ensures { result ≡ is_double_dash word.now }
{
    word == b"--".as_slice()
}

// The index of the first `=` in a word.
fn equals_sign(word: &[u8]) -> Option<usize>
    ensures { result ≡ position (λ b. b == EQUALS_SIGN) word.now }
{
    word.iter().position(|byte| *byte == EQUALS_SIGN)
}

/// The word of the option alone: of `--name=value` the part before the first `=`, of `-xvalue` the
/// first two bytes.
#[tactic(auto, unfolding(crate::specs::Grammar::option_word_without_value))]
pub(crate) fn option_word_without_value(word: &[u8]) -> &[u8]
    requires { IsTrue (is_option_or_double_dash word.now) }
    ensures { result.now ≡ option_word_without_value word.now }
{
    if !word.starts_with(b"--".as_slice()) {
        return &word[..2];
    }
    match equals_sign(word) {
        Some(i) => &word[..i],
        None => word,
    }
}

/// The value that an option's word holds, if it holds one: the part after the first `=` of a long
/// one, and after the letter of a short one.
#[tactic(auto, unfolding(crate::specs::Grammar::value_in_long_or_short_option_word))]
pub(crate) fn value_in_long_or_short_option_word(word: &[u8]) -> Option<&[u8]>
    ensures { option_map (λ text. text.now) result ≡ value_in_long_or_short_option_word word.now }
{
    if word.starts_with(b"--".as_slice()) {
        return long_value(word);
    }
    if word.len() > 2 {
        return Some(&word[2..]);
    }
    None
}

// The part of a word after the first `=`, if there is a `=`.
fn long_value(word: &[u8]) -> Option<&[u8]>
    ensures { option_map (λ text. text.now) result
        ≡ option_map (λ i. drop (i + 1) word.now) (position (λ b. b == EQUALS_SIGN) word.now) }
{
    match equals_sign(word) {
        Some(i) => Some(&word[i + 1..]),
        None => None,
    }
}

/// The place of a word, counted from 1, if this many words precede it.
pub(crate) fn place_after_word(before: usize) -> u32
    requires { before < MOST_PLACES }
    ensures { result ≡ before + 1 }
{
    before as u32 + 1
}
