//! The fuzzy match: whether a version begins with the tokens of a wanted one. Their common prefix
//! is skipped as plain bytes, as in a comparison. The rule is in `docs/formats.md`, "Versions",
//! below "An operator has four bits".

ghost use Rattle.std.specs.Prelude.{◌≡◌, IsTrue};
ghost use Rattle.version_core.specs.Matching.{are_wanted_tokens_met_by, is_fuzzy_match};
ghost use Rattle.version_core.specs.Order.{is_version};
ghost use Rattle.version_core.specs.Reading.{hash_fits, tokens_left};

use crate::lexeme::{behind, compare_hex_digits};
use crate::order::{Parting, parting_of, tokens_from_mark};
use crate::token::{Class, Tokens};

/// Whether the version `found` begins with the tokens of the version `wanted`.
pub fn is_fuzzy_match(found: &[u8], wanted: &[u8]) -> bool
    // The text that is tested is a version.
    requires found { IsTrue (is_version found.now) }
    // The wanted text is a version.
    requires wanted { IsTrue (is_version wanted.now) }
    ensures { result ≡ is_fuzzy_match found.now wanted.now }
{
    // Both versions are equal before this place, so that only what follows has to be compared.
    match parting_of(wanted, found) {
        Parting::AtFront => are_wanted_tokens_met_by(Tokens::of(wanted), Tokens::of(found)),
        Parting::AtMark(at) => are_wanted_tokens_met_by(
            tokens_from_mark(wanted, at),
            tokens_from_mark(found, at),
        ),
        Parting::InHash(len) => fits_within_hash(behind(wanted, len), behind(found, len)),
    }
}

/// The same as `is_fuzzy_match`, for two versions that are equal up to an offset within the hash of
/// each. The arguments are what follows this offset in each.
fn fits_within_hash(wanted: &[u8], found: &[u8]) -> bool
    ensures { result ≡ hash_fits wanted.now found.now }
{
    // The remaining digits of both hashes have to be equal.
    if compare_hex_digits(found, wanted).is_ne() {
        return false;
    }
    let class = Class::Hash;
    are_wanted_tokens_met_by(Tokens::behind(class, wanted), Tokens::behind(class, found))
}

/// Whether each remaining token of the wanted version, up to its end, fits the token of the found
/// version at the same index.
fn are_wanted_tokens_met_by(wanted: Tokens<'_>, found: Tokens<'_>) -> bool
    ensures { result ≡ are_wanted_tokens_met_by (tokens_left wanted.entry)
        (tokens_left found.entry) }
{
    let mut found_tokens = found;
    let mut wanted_tokens = wanted;
    loop {
        let token = wanted_tokens.next();
        // All tokens of the wanted version fit.
        if token.class.is_end_or_stray_class() {
            return true;
        }
        if !token.fits(&found_tokens.next()) {
            return false;
        }
    }
}
