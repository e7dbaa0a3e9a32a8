//! A law: what a pattern matches, in the words of the manual. The rule is in `docs/formats.md`,
//! "Patterns".

ghost use Rattle.std.specs.Prelude.{◌≡◌, ◌↔◌, ℕ, List, true};
ghost use Rattle.star_patterns.specs.Fills.{MatchesByFillingStars};
ghost use Rattle.star_patterns.specs.Patterns.{is_whole_text_matched};

/// A pattern matches a text exactly if replacing each `*` of the pattern by some bytes, or by none,
/// can give the text.
pub fn a_pattern_matches_what_its_stars_are_filled_to()
    ensures { (pattern text : List ℕ)
        → (is_whole_text_matched pattern text ≡ true) ↔ MatchesByFillingStars pattern text }
{}
