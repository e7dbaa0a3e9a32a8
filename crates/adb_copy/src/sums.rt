//! Sums of a payload's bytes (a polynomial hash), from which the fingerprint of any text in the
//! payload is computed in a few steps. In a sum, each byte is multiplied by a power of a factor.
//! The factors come from the payload's digest, so the maker of a payload cannot choose bytes with
//! equal fingerprints. `fingerprints` uses the sums, and tests whether texts with one fingerprint
//! are equal. The README of this crate describes the method, in the paragraph on fingerprints; no
//! document has a rule for it.

ghost use Rattle.std.specs.Prelude.{◌≤◌, ◌+◌, length};

use crate::overlaps::TextPlace;
use sha2::{Digest, Sha256};
use std::alloc::{AllocError, Global};

/// The modulus of all sums, a prime. The product of two numbers below the modulus has 62 bits, so
/// no computation exceeds 64 bits.
const PRIME: u64 = (1 << 31) - 1;

/// How many bytes of the payload are between two stored sums. Any number is correct: a greater one
/// takes less memory, and more time for a fingerprint.
const BLOCK: usize = 32;

/// Two numbers below `PRIME`. Each operation is applied to both numbers.
#[derive(Clone, Copy)]
struct Pair {
    /// The number that is computed with the first factor.
    left: u64,
    /// The number that is computed with the second factor.
    right: u64,
}

impl Pair {
    /// The pair that has this number, modulo the prime, twice.
    fn of(number: u64) -> Pair {
        Pair {
            left: number % PRIME,
            right: number % PRIME,
        }
    }

    /// The pair of the sums of the left numbers and of the right numbers of two pairs.
    fn plus(self, other: Pair) -> Pair {
        Pair {
            left: self.left.wrapping_add(other.left) % PRIME,
            right: self.right.wrapping_add(other.right) % PRIME,
        }
    }

    /// The pair of the products of the left numbers and of the right numbers of two pairs.
    fn times(self, other: Pair) -> Pair {
        Pair {
            left: self.left.wrapping_mul(other.left) % PRIME,
            right: self.right.wrapping_mul(other.right) % PRIME,
        }
    }

    /// The two sums (`self`) after one more byte: each sum is multiplied by its factor, and the
    /// byte plus one is added. One is added so that leading zero bytes change the sum too.
    fn times_with(self, factor: Pair, byte: u8) -> Pair {
        let more = byte as u64 + 1;
        Pair {
            left: self.left.wrapping_mul(factor.left).wrapping_add(more) % PRIME,
            right: self.right.wrapping_mul(factor.right).wrapping_add(more) % PRIME,
        }
    }

    /// The pair of the powers of both numbers with this exponent, by repeated squaring.
    fn to_power(self, exponent: usize) -> Pair {
        let mut power = Pair::of(1);
        let mut square = self;
        let mut rest = exponent;
        while rest > 0 {
            if rest % 2 == 1 {
                power = power.times(square);
            }
            square = square.times(square);
            rest /= 2;
        }
        power
    }

    /// Both numbers of the pair as one number: the left one in the high 32 bits.
    fn number(self) -> u64 {
        self.left.wrapping_mul(1 << 32).wrapping_add(self.right)
    }
}

/// The stored sums of one payload, from which fingerprints are computed.
#[derive(Drop)]
pub struct Sums {
    /// The two factors by whose powers bytes are multiplied; 0 before the payload is summed.
    factor: Pair,
    /// For each block of `BLOCK` bytes, the sums of all bytes before this block. Empty before the
    /// payload is summed.
    before: Vec<Pair>,
}

impl Sums {
    /// The object at the beginning, when no payload is summed.
    pub(crate) fn new(alloc: Global) -> Sums {
        Sums {
            factor: Pair::of(0),
            before: Vec::new(alloc),
        }
    }

    /// Sums the payload and stores the sums, unless that was done before.
    pub(crate) fn sum_once(&mut self, payload: &[u8]) -> Result<(), AllocError> {
        if !self.before.is_empty() {
            return Ok(());
        }
        self.factor = factor_of(payload);
        let mut sum = Pair::of(0);
        for at in 0..payload.len() {
            if at % BLOCK == 0 {
                self.before.push(sum)?;
            }
            sum = sum.times_with(self.factor, payload[at]);
        }
        // If the last block is full, the sums of all bytes are stored too.
        if payload.len() % BLOCK == 0 {
            self.before.push(sum)?;
        }
        Ok(())
    }

    /// The fingerprint of a text: the sums of its bytes alone, as one number. None if the payload
    /// is not summed.
    pub(crate) fn fingerprint_of(&self, payload: &[u8], text: TextPlace) -> Option<u64>
        // The text is within the payload.
        requires { text.from + text.len ≤ length payload.now }
    {
        let front = self.sum_before(payload, text.from)?;
        let whole = self.sum_before(payload, text.from + text.len)?;
        // Subtract the share of the bytes before the text, which is multiplied by `PRIME - 1`: this
        // is -1 modulo the prime.
        let opposite = Pair::of(PRIME - 1).times(front);
        let power = self.factor.to_power(text.len);
        Some(whole.plus(opposite.times(power)).number())
    }

    /// The sums of all bytes before an offset. None if the payload is not summed.
    fn sum_before(&self, payload: &[u8], offset: usize) -> Option<Pair>
        // The offset is within the payload.
        requires { offset ≤ length payload.now }
    {
        let block = offset / BLOCK;
        // From the stored sums of the block of the offset, add the bytes up to the offset.
        let mut sum = *self.before.get(block)?;
        for at in block * BLOCK..offset {
            sum = sum.times_with(self.factor, payload[at]);
        }
        Some(sum)
    }
}

/// Two factors that depend on the whole payload: they are computed from the bytes of its SHA-256
/// digest, which are appended to the two numbers by turns, modulo the prime.
fn factor_of(payload: &[u8]) -> Pair {
    let digest = Sha256::digest(payload);
    let mut factor = Pair::of(0);
    for byte in digest {
        factor = Pair {
            left: factor.right,
            right: factor.left.wrapping_mul(256).wrapping_add(byte as u64) % PRIME,
        };
    }
    factor
}
