//! The classes of tokens, the order of tokens, and the tokens of a text in sequence. The rules are
//! in `docs/formats.md`, "Versions": the classes and their order below "A version is compared by
//! its tokens", what a fuzzy match allows below "An operator has four bits".

ghost use Rattle.std.specs.Prelude.{◌≡◌, ◌<◌, Some, false, [], ◌∷◌, drop, if◌then◌else◌};
ghost use Rattle.version_core.specs.Token.{is_allowed_before_suffix_or_hash, is_allowed_before_revision, is_component, is_suffix};
ghost use Rattle.version_core.specs.Order.{class_rank, is_end_or_stray_class, token_cmp, tokens, tokens_after_class_skipping_bytes};
ghost use Rattle.version_core.specs.Matching.{is_wanted_token_met_by};
ghost use Rattle.version_core.specs.Reading.{bytes_left, token_view, tokens_left, unread_len};

use crate::lexeme::{behind, compare_hex_digits, leading_hex_digits, lexeme_at};
use std::cmp::Ordering;

/// The kinds of tokens, in their order from the least to the greatest.
#[derive(Clone, Copy, PartialEq, Eq)]
pub enum Class {
    /// Bytes outside the grammar.
    Stray,
    /// One of the first four suffixes, such as `_rc`.
    PreRelease,
    /// The end of the text.
    End,
    /// The number after `-r`.
    Revision,
    /// The hexadecimal digits after `~`.
    Hash,
    /// The number of a suffix.
    SuffixNumber,
    /// One of the other five suffixes, such as `_p`.
    Suffix,
    /// The letter after the components.
    Letter,
    /// A later component that begins with `0`, which is compared as text.
    ZeroComponent,
    /// The first component, or a later one that does not begin with `0`.
    Component,
}

impl Class {
    /// The rank of the class in the order of classes, from 0.
    fn rank(self) -> u8
        ensures { result ≡ class_rank self }
    {
        self as u8
    }

    /// Whether no token follows a token of this class.
    pub fn is_end_or_stray_class(self) -> bool
        ensures { result ≡ is_end_or_stray_class self }
    {
        matches!(self, Class::End | Class::Stray)
    }

    /// Whether a token of this class is a component, so that a component or a letter may follow.
    pub fn is_component(self) -> bool
        ensures { result ≡ is_component self }
    {
        matches!(self, Class::ZeroComponent | Class::Component)
    }

    /// Whether a token of this class is a suffix, so that a number without a mark may follow.
    pub fn is_suffix(self) -> bool
        ensures { result ≡ is_suffix self }
    {
        matches!(self, Class::PreRelease | Class::Suffix)
    }

    /// Whether a suffix or a hash may follow a token of this class.
    pub fn is_allowed_before_suffix_or_hash(self) -> bool
        ensures { result ≡ is_allowed_before_suffix_or_hash self }
    {
        match self {
            Class::Letter | Class::SuffixNumber => true,
            class => class.is_component() || class.is_suffix(),
        }
    }

    /// Whether a revision may follow a token of this class.
    pub fn is_allowed_before_revision(self) -> bool
        ensures { result ≡ is_allowed_before_revision self }
    {
        match self {
            Class::Hash => true,
            class => class.is_allowed_before_suffix_or_hash(),
        }
    }
}

/// A token of a version: its class, and its value, a number or a text. Only the hexadecimal digits
/// at the start of the slice `text` are the value; the slice may go on after them. So a hash is not
/// read to its end before it is compared.
#[derive(Clone, Copy)]
pub struct TokenAt<'a> {
    /// The class of the token.
    pub class: Class,
    /// The value of the token as a number; 0 if the token is compared as text.
    pub number: u64,
    /// The slice whose leading hexadecimal digits are the value of the token as text; empty if the
    /// token is compared as a number.
    pub text: &'a [u8],
}

impl TokenAt<'_> {
    /// The order of two tokens: first their classes, then their numbers, then their texts are
    /// compared. It takes time linear in the shorter text.
    pub fn compare(&self, other: &TokenAt<'_>) -> Ordering
        ensures { result ≡ token_cmp (token_view self.now) (token_view other.now) }
    {
        let by_class = self.class.rank().cmp(&other.class.rank());
        let by_number = self.number.cmp(&other.number);
        let by_text = compare_hex_digits(self.text, other.text);
        by_class.then(by_number).then(by_text)
    }

    /// Whether the token `found` fits this token, which is wanted, in a fuzzy match.
    #[tactic(auto, unfolding(crate::specs::Matching::is_wanted_token_met_by))]
    pub fn fits(&self, found: &TokenAt<'_>) -> bool
        ensures { result ≡ is_wanted_token_met_by (token_view self.now) (token_view found.now) }
    {
        // Two components that are compared as text: the found text begins with the wanted one.
        if self.class == Class::ZeroComponent && found.class == Class::ZeroComponent {
            leading_hex_digits(found.text).starts_with(leading_hex_digits(self.text))
        } else {
            found.compare(self).is_eq()
        }
    }
}

/// The tokens of a text, read from the front.
#[derive(Clone, Copy)]
pub struct Tokens<'a> {
    // The bytes that are not skipped yet. If the last token is a hash, they begin with its digits.
    rest: &'a [u8],
    // The class of the token that was taken last; None before the first one.
    last: Option<Class>,
}

impl<'a> Tokens<'a> {
    /// All tokens of a text, from its start on.
    #[tactic(auto, unfolding(crate::specs::Order::tokens))]
    pub fn of(text: &'a [u8]) -> Tokens<'a>
        ensures { tokens_left result ≡ tokens text.entry.now }
    {
        Tokens {
            rest: text,
            last: None,
        }
    }

    /// The tokens of the text `rest`, which follows a token of this class, or some digits of a
    /// hash.
    pub fn behind(class: Class, rest: &'a [u8]) -> Tokens<'a>
        ensures { tokens_left result
            ≡ tokens_after_class_skipping_bytes (Some class) (unread_len
            (Some class) rest.entry.now) rest.entry.now }
    {
        Tokens {
            rest,
            last: Some(class),
        }
    }

    /// Takes the next token. No token may be taken after the last one, which is the end or a stray
    /// one.
    pub fn next(&mut self) -> TokenAt<'a>
        // The tokens that were left are the result and those that are left now.
        ensures tokens { tokens_left self.old
            ≡ token_view result ∷
            (if is_end_or_stray_class result.class then [] else tokens_left self.new) }
        // Fewer bytes are left than before, so that a loop ends.
        ensures shorter { is_end_or_stray_class result.class ≡ false
            → bytes_left self.new < bytes_left self.old }
    {
        // The text after the last token.
        let rest = self.unread_text();
        let lexeme = lexeme_at(self.last, rest);
        self.rest = behind(rest, lexeme.advance);
        self.last = Some(lexeme.token.class);
        lexeme.token
    }

    /// The text after the token that was taken last, and after all digits if that is a hash.
    fn unread_text(&self) -> &'a [u8]
        ensures { result.now ≡ drop (unread_len self.now.last self.now.rest.now) self.now.rest.now }
    {
        match self.last {
            Some(Class::Hash) => behind(self.rest, leading_hex_digits(self.rest).len()),
            _ => self.rest,
        }
    }
}
