//! Locators: entries of the writer's list of items. A locator is one number: the fingerprint of a
//! written item in the high 32 bits, and the word that points to the item in the low 32 bits. How
//! locators are stored is described in the README of this crate.

ghost use Rattle.std.specs.Prelude.{◌≡◌, ◌<◌, ◌^◌};
ghost use Rattle.adb_write.specs.Keys.{fingerprint_of_locator, locator_of, word_of_locator};

use adb_view::Val;

/// The locator of an item with this fingerprint, to which this word points.
pub(crate) fn locator_of(fingerprint: u64, word: Val) -> u64
    // The fingerprint has 32 bits.
    requires { fingerprint < 2 ^ 32 }
    ensures { result ≡ locator_of fingerprint word }
{
    fingerprint * (1 << 32) + word.word() as u64
}

/// The word that points to the item of a locator.
pub(crate) fn word_of_locator(locator: u64) -> Val
    ensures { result ≡ word_of_locator locator }
{
    Val::of((locator % (1 << 32)) as u32)
}

/// The fingerprint of the item of a locator.
pub(crate) fn fingerprint_of_locator(locator: u64) -> u64
    ensures { result ≡ fingerprint_of_locator locator }
{
    locator / (1 << 32)
}
