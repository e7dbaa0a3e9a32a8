//! The bytes of an unfinished payload, and the locators by which the items in it are found. The
//! `Writer` uses them. How locators are stored is described in the README of this crate; that equal
//! values are stored once is stated in `docs/formats.md`, "Canonical layout" ("Equal values are
//! stored once").

ghost use Rattle.std.specs.Prelude.{◌≡◌, ◌≤◌, ◌-◌, [], ◌∷◌, ◌++◌, length, replicate, IfOk, IsOk, OnOk, OnErr};
ghost use Rattle.std.specs.List.{concat};
ghost use Rattle.adb_write.specs.Items.{item_of};
ghost use Rattle.adb_write.specs.Keys.{fingerprint_of, key_of, locator_of, HaveRisingKeys};
ghost use Rattle.adb_write.specs.WordPages.{HaveNoEmptyPage, pages_of, locators_before_slot, locators_from_slot, IsSlotIn, IsSearchResult};
ghost use Rattle.adb_write.specs.WriterState.{IsEmptyOrHasHead, AreStored};

use crate::item::Parts;
use crate::locator::locator_of;
use crate::word_pages::{Slot, WordPages};
use adb_view::{Adb, Val};
use std::alloc::{AllocError, Global};

/// The bytes of an unfinished payload, and the locators of its items.
#[derive(Drop)]
pub(crate) struct Store {
    /// The payload so far: no bytes, or the head of 8 zeros and the items after the head.
    pub payload: Vec<u8>,
    /// The locators of the items in the payload.
    pub words: WordPages,
}

impl Store {
    /// A store without bytes and without locators.
    pub(crate) fn new(alloc: Global) -> Store
        // The payload has no bytes.
        ensures payload { result.payload.items ≡ [] }
        // There are no pages of locators.
        ensures words { pages_of result.words ≡ [] }
    {
        Store {
            payload: Vec::new(alloc),
            words: WordPages::new(alloc),
        }
    }

    /// A store without anything in it, with memory for a payload of this many bytes.
    pub(crate) fn with_capacity(alloc: Global, bytes: usize) -> Result<Store, AllocError>
        ensures payload { IfOk result (λ store. store.payload.items ≡ []) }
        // There are no pages of locators.
        ensures words { IfOk result (λ store. pages_of store.words ≡ []) }
        // No memory is needed for no bytes.
        ensures succeeds { bytes ≡ 0 → IsOk result }
    {
        let payload = Vec::with_capacity(alloc, bytes)?;
        Ok(Store {
            payload,
            words: WordPages::new(alloc),
        })
    }

    /// The locator of a written item that equals the item `parts`. If there is none, the error is
    /// the slot at which the locator of `parts` would be inserted.
    pub(crate) fn find(&self, parts: &Parts<'_>) -> Result<u64, Slot>
        // The payload is empty, or begins with its head.
        requires head { IsEmptyOrHasHead self.now.payload.items }
        // No page is empty.
        requires filled { HaveNoEmptyPage (pages_of self.now.words) }
        // The locators are in the rising order of their keys.
        requires rising { HaveRisingKeys self.now.payload.items (concat (pages_of self.now.words)) }
        // Each locator names an item of the payload.
        requires stored { AreStored self.now.payload.items (concat (pages_of self.now.words)) }
        // On Ok, the locator has the key of the item. An error is the slot between the lower and
        // the higher keys.
        ensures { IsSearchResult self.now.payload.items (pages_of self.now.words) (key_of parts.now)
            result }
    {
        match Adb::new(&self.payload) {
            Ok(adb) => self.words.find(&adb, parts, parts.fingerprint()),
            // The payload has no head yet, so it has no items: the locator belongs into the first
            // slot.
            Err(_) => Err(Slot { page: 0, index: 0 }),
        }
    }

    /// Appends zeros up to the offset `at`, and then the item `parts`. Inserts the item's locator,
    /// which has the word `word`, at the slot. If memory runs out, the bytes and the locators are
    /// unchanged.
    pub(crate) fn append(
        &mut self,
        parts: &Parts<'_>,
        at: usize,
        slot: Slot,
        word: Val,
    ) -> Result<(), AllocError>
        // The offset is not before the end of the payload.
        requires behind { length self.old.payload.items ≤ at }
        // No page is empty.
        requires filled { HaveNoEmptyPage (pages_of self.old.words) }
        // The slot is one of these pages.
        requires inside { IsSlotIn (pages_of self.old.words) slot.page slot.index }
        // No page is empty.
        ensures filled { HaveNoEmptyPage (pages_of self.new.words) }
        // Zeros up to the offset are appended, and then the item.
        ensures bytes { OnOk result (self.new.payload.items
            ≡ self.old.payload.items
            ++ (replicate (at - length self.old.payload.items) 0 ++ (item_of parts.now).bytes)) }
        // The locator of the item is inserted at the slot.
        ensures words { OnOk result (concat (pages_of self.new.words)
            ≡ locators_before_slot (pages_of self.old.words) slot.page slot.index
            ++ locator_of (fingerprint_of parts.now) word
            ∷ locators_from_slot (pages_of self.old.words) slot.page slot.index) }
        // After an error the bytes are unchanged.
        ensures same_bytes { OnErr result (self.new.payload.items ≡ self.old.payload.items) }
        // After an error the locators are unchanged.
        ensures same_words { OnErr result
            (concat (pages_of self.new.words) ≡ concat (pages_of self.old.words)) }
    {
        let len = self.payload.len();
        parts.append(&mut self.payload, at)?;
        let entered = self
            .words
            .insert(slot, locator_of(parts.fingerprint(), word));
        // Without its locator, the item is removed again.
        if entered.is_err() {
            self.payload.truncate(len);
        }
        entered
    }
}
