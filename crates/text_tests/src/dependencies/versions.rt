//! Answers questions about versions: which texts are versions, their order, and what operators
//! match. The rules are in `docs/formats.md`, "Versions".
use row_lines::{Answer, number_of};
use std::cmp::Ordering;
use version_core::{Op, Version};

/// Answers `version TEXT`: whether the text is a version, and the version keeps this text
/// unchanged.
pub(crate) fn reads_as_itself(text: &[u8]) -> bool {
    match Version::read(text) {
        Some(version) => version.text() == text,
        None => false,
    }
}

/// Answers `order A B`: the sign (`<`, `=` or `>`) between the versions A and B, or `no order` if
/// comparing B with A does not give the reverse.
pub(crate) fn order_of(left: &[u8], right: &[u8]) -> &'static [u8] {
    match (Version::read(left), Version::read(right)) {
        (Some(left), Some(right)) => sign_of(left.compare(&right), right.compare(&left)),
        _ => b"no versions",
    }
}

// The sign of an order, or `no order` if the other one is not its reverse.
fn sign_of(order: Ordering, reverse: Ordering) -> &'static [u8] {
    match (order, reverse) {
        (Ordering::Less, Ordering::Greater) => b"<",
        (Ordering::Equal, Ordering::Equal) => b"=",
        (Ordering::Greater, Ordering::Less) => b">",
        _ => b"no order",
    }
}

/// Answers `match A BITS B`: whether the version A matches the version B with the operator of these
/// match bits.
pub(crate) fn match_of(found: &[u8], bits: &[u8], wanted: &[u8]) -> &'static [u8] {
    let (Some(found), Some(op), Some(wanted)) = (
        Version::read(found),
        operator_of(bits),
        Version::read(wanted),
    ) else {
        return b"no versions";
    };
    if found.matches(op, &wanted) {
        b"yes"
    } else {
        b"no"
    }
}

// The operator whose match bits are this number, which is given in digits.
fn operator_of(bits: &[u8]) -> Option<Op> {
    let bits = u8::try_from(number_of(bits)?).ok()?;
    Op::of(bits)
}

/// Answers `operators`: the numbers from 0 to 255 that are the match bits of an operator.
pub(crate) fn add_operators(answer: &mut Answer) {
    for bits in 0..=u8::MAX {
        if let Some(op) = Op::of(bits) {
            if op.bits() == bits {
                answer.add_word(b"");
                answer.add_number(u128::from(bits));
            }
        }
    }
}
