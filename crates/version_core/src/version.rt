//! Versions, and the operators that they are matched against. The rules are in `docs/formats.md`,
//! "Versions"; the operators and their match bits below "An operator has four bits".

ghost use Rattle.std.specs.Prelude.{◌≡◌, IfSome, IsTrue, is_some};
ghost use Rattle.version_core.specs.Op.{are_match_bits_below_16_except_6_and_14};
ghost use Rattle.version_core.specs.Order.{is_version, tokens, version_cmp};
ghost use Rattle.version_core.specs.Matching.{has_bit, operator_if_bits, matches};

use crate::fuzzy::is_fuzzy_match;
use crate::order::compare;
use crate::token::{Class, Tokens};
use std::cmp::Ordering;
use std::marker::Model;

/// The match bit of versions that are equal to the wanted one.
const EQUAL: u8 = 1;

/// The match bit of versions that are less than the wanted one.
const LESS: u8 = 2;

/// The match bit of versions that are greater than the wanted one.
const GREATER: u8 = 4;

/// The match bit of versions that begin with the tokens of the wanted one.
const FUZZY: u8 = 8;

/// An operator of a dependency, as its four match bits: 1 equal, 2 less, 4 greater, 8 the fuzzy
/// match (apk-package(5), "depend").
#[derive(Clone, Copy)]
pub struct Op {
    /// The four match bits.
    bits: u8,
}

impl Model for Op {
    ghost use Rattle.std.specs.Prelude.{ℕ, IsTrue};
    ghost use Rattle.version_core.specs.Op.{are_match_bits_below_16_except_6_and_14};

    // Contracts see an operator as its match bits.
    ghost Value = { ℕ };

    ghost view = { λ op. op.bits };

    // The bits are those of an operator.
    ghost invariant = { λ op. IsTrue (are_match_bits_below_16_except_6_and_14 op.bits) };

    // The operator that has these bits.
    ghost inverse = { λ bits. record { bits = bits } };
}

impl Op {
    /// The operator of these bits. None if the bits are 6 or 14 (less or greater without equal) or
    /// above 15.
    pub fn of(bits: u8) -> Option<Op>
        ensures { result ≡ operator_if_bits bits }
    {
        if bits > 15 || bits == 6 || bits == 14 {
            return None;
        }
        Some(Op { bits })
    }

    /// The match bits that the operator was made of.
    pub fn bits(self) -> u8
        ensures bits { result ≡ self }
        // The bits are those of an operator.
        ensures op { IsTrue (are_match_bits_below_16_except_6_and_14 self) }
    {
        self.bits
    }

    /// Whether a match bit is set.
    pub(crate) fn has_bit(self, bit: u8) -> bool
        ensures { result ≡ has_bit self bit }
    {
        self.bits & bit != 0
    }
}

/// A version, seen as its text (apk-package(5)).
#[derive(Drop)]
pub struct Version<'a> {
    /// The text, which is a version.
    text: &'a [u8],
}

impl<'a> Model for Version<'a> {
    ghost use Rattle.std.specs.Prelude.{ℕ, List, IsTrue};
    ghost use Rattle.version_core.specs.Order.{is_version};

    // Contracts see a version as the bytes of its text.
    ghost Value = { List ℕ };

    ghost view = { λ version. version.text.now };

    // The text is a version.
    ghost invariant = { λ version. IsTrue (is_version version.text.now) };
}

impl<'a> Version<'a> {
    /// The version that the text denotes. None if and only if the text is not a version.
    pub fn read(text: &'a [u8]) -> Option<Version<'a>>
        // A version is returned exactly if the text is a version.
        ensures when { is_some result ≡ is_version text.entry.now }
        // A version that is returned is the given text.
        ensures value { IfSome result (λ version. version ≡ text.entry.now) }
    {
        if is_version(text) {
            Some(Version { text })
        } else {
            None
        }
    }

    /// The version of a text that is known to be one; the text is not read again.
    pub fn of(text: &'a [u8]) -> Version<'a>
        // The text is a valid version.
        requires { IsTrue (is_version text.now) }
        ensures { result ≡ text.entry.now }
    {
        Version { text }
    }

    /// The text that the version was read from.
    pub fn text(&self) -> &'a [u8]
        ensures value { result.now ≡ self.now }
        // The text is a version.
        ensures version { IsTrue (is_version self.now) }
    {
        self.text
    }

    /// The order of two versions: the first tokens that differ decide. Versions that are equal here
    /// may have different texts, as `01` and `1`. It takes time linear in the shorter text; the
    /// common prefix is compared at the speed of plain bytes.
    pub fn compare(&self, other: &Version<'_>) -> Ordering
        ensures { result ≡ version_cmp self.now other.now }
    {
        compare(self.text, other.text)
    }

    /// Whether this version matches the operator `op` and the version `wanted`: one of the
    /// operator's match bits holds for it. An operator without bits matches nothing. It takes time
    /// linear in the shorter text.
    #[tactic(auto, unfolding(crate::specs::Matching::matches))]
    pub fn matches(&self, op: Op, wanted: &Version<'_>) -> bool
        ensures { result ≡ matches op self.now wanted.now }
    {
        // How this version compares with the wanted version.
        let order = self.compare(wanted);
        if op.has_bit(EQUAL) && order.is_eq() {
            return true;
        }
        if op.has_bit(LESS) && order.is_lt() {
            return true;
        }
        if op.has_bit(GREATER) && order.is_gt() {
            return true;
        }
        op.has_bit(FUZZY) && is_fuzzy_match(self.text, wanted.text)
    }
}

/// Whether a text is a version.
#[tactic(auto, unfolding(crate::specs::Order::is_version))]
fn is_version(text: &[u8]) -> bool
    ensures { result ≡ is_version text.now }
{
    let mut tokens = Tokens::of(text);
    loop {
        match tokens.next().class {
            Class::End => return true,
            Class::Stray => return false,
            _ => {}
        }
    }
}
