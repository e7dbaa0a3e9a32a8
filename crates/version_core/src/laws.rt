//! Theorems about the definitions, for all texts and versions. Each is proved as the contract of an
//! empty function. What a version is and how two compare is defined in `docs/formats.md`,
//! "Versions"; the README of this crate lists the laws.

ghost use Rattle.std.specs.Prelude.{◌≡◌, ◌∷◌, ◌↔◌, [], ℕ, List, count_by, true};
ghost use Rattle.std.specs.Cmp.{IsTotalOrder};
ghost use Rattle.std.specs.declared.cmp.Ordering.TheVariants.{Equal};
ghost use Rattle.version_core.specs.Grammar.{IsSpelledVersion, VersionParts, are_version_parts, begins_with_digit, is_version_byte, spelling, tokens_of};
ghost use Rattle.version_core.specs.Op.{EQUAL, GREATER, LESS};
ghost use Rattle.std.specs.List.{list_all};
ghost use Rattle.version_core.specs.Order.{is_version, tokens, version_cmp};
ghost use Rattle.version_core.specs.Matching.{is_fuzzy_match, matches};

/// The order of versions is total and transitive on all texts: of two texts one is less, or both
/// are equal.
pub fn order_is_total()
    ensures { IsTotalOrder version_cmp }
{}

/// A text is equal to itself in the order of versions.
pub fn order_is_reflexive()
    ensures { (version : List ℕ) → version_cmp version version ≡ Equal }
{}

/// Two texts are equal in the order of versions if and only if their tokens are equal.
pub fn equal_versions_have_equal_tokens()
    ensures { (left right : List ℕ)
        → (version_cmp left right ≡ Equal) ↔ (tokens left ≡ tokens right) }
{}

/// Of the operators `<`, `=` and `>`, exactly one matches a version `found`, given a version
/// `wanted`.
pub fn one_of_three_matches()
    ensures { (found wanted : List ℕ) → count_by (λ holds. holds)
        (matches LESS found wanted ∷ matches EQUAL found wanted ∷ matches GREATER found wanted
        ∷ []) ≡ 1 }
{}

/// If two texts are equal in the order of versions, one is a fuzzy match of the other.
pub fn equal_versions_match_fuzzily()
    ensures { (found wanted : List ℕ)
        → version_cmp found wanted ≡ Equal → is_fuzzy_match found wanted ≡ true }
{}

/// Parts that follow the grammar spell a version, and the tokens of this version are those of the
/// parts.
pub fn spelled_is_read()
    // The spelling of such parts is a valid version.
    ensures version { (parts : VersionParts)
        → are_version_parts parts ≡ true → is_version (spelling parts) ≡ true }
    // The tokens of the spelling are those of the parts.
    ensures tokens { (parts : VersionParts)
        → are_version_parts parts ≡ true → tokens (spelling parts) ≡ tokens_of parts }
{}

/// Every version is spelled from parts that follow the grammar.
pub fn read_is_spelled()
    ensures { (text : List ℕ) → is_version text ≡ true → IsSpelledVersion text }
{}

/// A version begins with a digit, and consists of digits, lower-case letters, `.`, `_`, `~` and
/// `-`.
pub fn versions_have_version_bytes()
    // Each byte of a version is one of these.
    ensures bytes { (text : List ℕ)
        → is_version text ≡ true → list_all is_version_byte text ≡ true }
    // The first byte of a version is a digit.
    ensures first { (text : List ℕ) → is_version text ≡ true → begins_with_digit text ≡ true }
{}
