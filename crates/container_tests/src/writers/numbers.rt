//! Answers `numbers ORDER`: many blobs are written in the given order, and then again. The writer's
//! list of locators (written items) needs many pages for so many blobs. That equal values are
//! stored once is stated in `docs/formats.md`, "Canonical layout".
use adb_view::Val;
use adb_write::Writer;
use row_lines::{Answer, value_named};
use std::alloc::{AllocError, Global};

/// How many blobs are written.
const BLOBS: u32 = 5000;

/// The order in which the numbers are written as blobs.
#[derive(Clone, Copy)]
enum Order {
    /// From 0 on.
    Rising,
    /// Down from the count of blobs.
    Falling,
    /// Multiples of an odd number, modulo 65,536.
    Scattered,
}

// The word by which a row names each order.
#[rattlefmt::skip]
const ORDERS: [(&[u8], Order); 3] = [
    (b"rising", Order::Rising),
    (b"falling", Order::Falling),
    (b"scattered", Order::Scattered),
];

/// Writes the numbers as blobs of four bytes, and returns their words (32-bit references).
fn words_of(alloc: Global, writer: &mut Writer, order: Order) -> Result<Vec<Val>, AllocError> {
    let mut words = Vec::new(alloc);
    for i in 0..BLOBS {
        let number = match order {
            Order::Rising => i,
            Order::Falling => BLOBS - i,
            // The factor is odd, so that no two of the numbers are equal.
            Order::Scattered => i * 7919 % 65_536,
        };
        words.push(writer.blob(&number.to_be_bytes())?)?;
    }
    Ok(words)
}

/// Writes the numbers as blobs twice, and adds whether each blob has the same word when it is
/// written again. Returns the writer of the blobs.
pub(crate) fn add_numbers(
    alloc: Global,
    order: &[u8],
    answer: &mut Answer,
) -> Result<Writer, AllocError> {
    let mut writer = Writer::new(alloc);
    let Some(order) = value_named(&ORDERS, order) else {
        answer.push(b"no order ");
        return Ok(writer);
    };
    let first = words_of(alloc, &mut writer, order)?;
    let second = words_of(alloc, &mut writer, order)?;
    let same = first == second;
    answer.push(if same { b"the same " } else { b"others " });
    Ok(writer)
}
