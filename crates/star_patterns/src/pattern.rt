//! Whether a pattern matches a text. The rule is in `docs/formats.md`, "Patterns".
//!
//! A *piece* of a pattern is what is between two of its stars. Each piece is matched where it first
//! occurs in the text, since a later occurrence leaves less text for the pieces after it. The
//! algorithm Two-Way finds the pieces, so no text is read twice.

ghost use Rattle.std.specs.Option.{option_map_or};
ghost use Rattle.std.specs.Prelude.{◌≡◌, ◌==◌, ◌∷◌, ◌++◌, ◌<◌, ◌+◌, ℕ, [], List, false, drop, length, position, IfSome};
ghost use Rattle.star_patterns.specs.Ends.{has_star, matches_some_suffix};
ghost use Rattle.star_patterns.specs.Patterns.{is_whole_text_matched, matches_some_part, star};

use memchr::memmem;

/// Whether a pattern matches the whole of a text. The call takes time in proportion to the lengths
/// of pattern and text.
pub fn matches(pattern: &[u8], text: &[u8]) -> bool
    ensures { result ≡ is_whole_text_matched pattern.now text.now }
{
    // A pattern without a star matches only itself.
    let Some(at) = first_star(pattern) else {
        return pattern == text;
    };
    // The text has to begin with the piece before the first star.
    match text.strip_prefix(&pattern[..at]) {
        Some(left) => matches_end(after(pattern, at), left),
        None => false,
    }
}

/// Whether a pattern matches some substring of a text. The call takes time in proportion to the
/// lengths of pattern and text.
pub fn matches_within(pattern: &[u8], text: &[u8]) -> bool
    ensures { result ≡ matches_some_part pattern.now text.now }
{
    match last_piece(pattern, text) {
        Some(last) => after_first(last.piece, last.text).is_some(),
        None => false,
    }
}

/// Whether a pattern, which follows a star, matches some suffix of a text.
fn matches_end(pattern: &[u8], text: &[u8]) -> bool
    ensures { result ≡ matches_some_suffix pattern.now text.now }
{
    match last_piece(pattern, text) {
        Some(last) => last.text.ends_with(last.piece),
        None => false,
    }
}

/// The last piece of a pattern, and the rest of a text in which this piece has to be found.
#[derive(Drop)]
struct LastPiece<'p, 't> {
    /// The part of the pattern after its last star; the whole pattern if it has no star.
    piece: &'p [u8],
    /// The part of the text after the pieces before the last one.
    text: &'t [u8],
}

/// The last piece of a pattern, and the rest of the text after the pieces before it, each of which
/// is matched at its first occurrence. None if one of them does not occur.
fn last_piece<'p, 't>(pattern: &'p [u8], text: &'t [u8]) -> Option<LastPiece<'p, 't>>
    // The pattern, with any text after it, matches a suffix of the text exactly if the last piece,
    // with this text after it, matches a suffix of the rest.
    ensures answer { (tail : List ℕ) → matches_some_suffix (pattern.now ++ tail) text.now
        ≡ option_map_or (λ last. matches_some_suffix (last.piece.now ++ tail) last.text.now)
        result false }
    // The last piece has no star.
    ensures piece { IfSome result (λ last. has_star last.piece.now ≡ false) }
{
    // The part of the pattern that is still to be matched, and the text that is left for it.
    let mut wanted = pattern;
    let mut left = text;
    while let Some(at) = first_star(wanted) {
        left = after_first(&wanted[..at], left)?;
        wanted = after(wanted, at);
    }
    Some(LastPiece {
        piece: wanted,
        text: left,
    })
}

/// The text after the first occurrence of a piece that has no star, or None if the piece does not
/// occur.
fn after_first<'a>(piece: &[u8], text: &'a [u8]) -> Option<&'a [u8]>
    // The piece, a star and any pattern match a suffix of the text exactly if this pattern matches
    // a suffix of the result.
    ensures { (pattern : List ℕ) → has_star piece.now ≡ false
        → matches_some_suffix (piece.now ++ star ∷ pattern) text.now
        ≡ option_map_or (λ rest. matches_some_suffix pattern rest.now) result false }
{
    let at = memmem::find(text, piece)?;
    Some(&text[at + piece.len()..])
}

/// The bytes after the byte at the index `at`, counted from 0.
fn after(bytes: &[u8], at: usize) -> &[u8]
    // The index is that of a byte.
    requires { at < length bytes.now }
    ensures { result.now ≡ drop (at + 1) bytes.now }
{
    &bytes[at + 1..]
}

/// The index of the first `*` of a pattern, counted from 0, or None if it has no star.
fn first_star(pattern: &[u8]) -> Option<usize>
    ensures found { result ≡ position (λ b. b == star) pattern.now }
    // An index that is returned is that of a byte of the pattern.
    ensures within { IfSome result (λ at. at < length pattern.now) }
{
    pattern.iter().position(|b| *b == b'*')
}
