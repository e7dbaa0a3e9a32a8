//! Finds long texts of a payload that are likely to equal a text that was copied before. Texts are
//! found by a fingerprint, which takes a few steps after the payload is summed once. `known_texts`
//! tests whether a found text is equal. The README of this crate describes the method, in the
//! paragraph on fingerprints. Fingerprints only save time, so no contract or document mentions
//! them.

use crate::overlaps::text_place;
use crate::sums::Sums;
use adb_view::{Adb, Val};
use std::alloc::{AllocError, Global};
use std::collections::BTreeMap;

/// Remembered texts by their fingerprints. A text with the same fingerprint as another need not be
/// equal to it: who uses a result tests whether the texts are equal.
#[derive(Drop)]
pub struct Fingerprints {
    /// How many bytes all texts have together that were compared with the blobs of the draft.
    compared: usize,
    /// The sums of the payload. They are computed when more bytes were compared than the payload
    /// has.
    sums: Sums,
    /// Maps the fingerprint and the length of a text to the word of this text in the payload.
    words: BTreeMap<(u64, usize), u32>,
}

impl Fingerprints {
    /// The object at the beginning, when no text is remembered.
    pub(crate) fn new(alloc: Global) -> Fingerprints {
        Fingerprints {
            compared: 0,
            sums: Sums::new(alloc),
            words: BTreeMap::new(alloc),
        }
    }

    /// The word of a remembered text that has the same fingerprint and length as the text of
    /// `word`, if there is one.
    pub(crate) fn likely_equal(&self, adb: Adb<'_>, word: Val) -> Option<u32> {
        let text = text_place(adb, word)?;
        let fingerprint = self.sums.fingerprint_of(adb.payload(), text)?;
        self.words.get(&(fingerprint, text.len)).copied()
    }

    /// Remembers `word`, whose text was compared with the blobs of the draft. Nothing is remembered
    /// before more bytes were compared than the payload has.
    pub(crate) fn note(&mut self, adb: Adb<'_>, word: Val) -> Result<(), AllocError> {
        let Some(text) = text_place(adb, word) else {
            return Ok(());
        };
        self.compared = self.compared.saturating_add(text.len);
        if self.compared <= adb.payload().len() {
            return Ok(());
        }
        self.sums.sum_once(adb.payload())?;
        if let Some(fingerprint) = self.sums.fingerprint_of(adb.payload(), text) {
            self.words.insert((fingerprint, text.len), word.word())?;
        }
        Ok(())
    }
}
