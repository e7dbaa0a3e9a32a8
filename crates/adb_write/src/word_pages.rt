//! The locators of the items that a writer has written, in the order of their keys, so that an item
//! that equals a new one is found. `store` uses them.
//!
//! The locators are in pages of at most 512, so that inserting a locator moves few others. The page
//! and the index of an item are guessed first, and found by bisection if the guess fails.
//!
//! A locator takes eight bytes. A page has room for at most 128 more than it contains, and every
//! page contains at least 256, unless it is the only one. The lists of pages take at most 64 bytes
//! a page, since a list that grows doubles. So a page takes at most 8 * 128 + 64 bytes beside its
//! locators, which is 4.25 bytes for each of 256. That is at most 12.25 bytes a locator, and 1.2 kB
//! more if there is one page.
//!
//! How locators are stored is described in the README of this crate; that equal values are stored
//! once is stated in `docs/formats.md`, "Canonical layout" ("Equal values are stored once").

ghost use Rattle.std.specs.Prelude.{◌≡◌, ◌≤◌, ◌<◌, ℕ, List, [], ◌∷◌, ◌++◌, length, take, drop, insert, IfOk, OnOk, OnErr};
ghost use Rattle.std.specs.List.{concat};
ghost use Rattle.adb_view.specs.Adb.{payload_of};
ghost use Rattle.adb_write.specs.Keys.{key_of_locator, key_with_fingerprint, HaveRisingKeys};
ghost use Rattle.std.specs.Bool.{OnTrue};
ghost use Rattle.std.specs.Ordering.{nat_cmp, is_lt};
ghost use Rattle.std.specs.Cmp.Lexicographic.{slice_cmp};
ghost use Rattle.adb_write.specs.WordPages.{HaveNoEmptyPage, HALF, page_at, pages_of, locators_before_slot, locators_from_slot, with_page_split, IsSlotIn, IsSameSlot, AllCompareToKey, IsSearchResult, IsPageSearchResult, IsPageAt, IsPageFor, page_begins_above_key};
ghost use Rattle.std.specs.declared.cmp.Ordering.TheVariants.{Less, Greater};

use crate::first_locators::FirstLocators;
use crate::item::Parts;
use crate::locator::{fingerprint_of_locator, word_of_locator};
use adb_view::Adb;
use std::alloc::{AllocError, Global};
use std::cmp::Ordering;

/// The most locators of a page. Inserting a locator in a larger page moves more locators; smaller
/// pages are more in number.
const FULL: usize = 512;

/// How many locators remain in a page that is split. The other locators are moved to a new page.
const HALF: usize = FULL / 2;

/// For how many more locators room is allocated if a page has no room.
const ROOM: usize = 128;

/// An item is first searched among this many locators before, and after, its likely index in a
/// page. The number does not change the result, since it is tested that the item belongs there.
const NEARBY: usize = 12;

/// A slot: the place at which a locator is inserted.
#[derive(Clone, Copy)]
pub(crate) struct Slot {
    /// The index of the page, counted from 0.
    pub page: usize,
    /// The index in this page, counted from 0, which the locator gets.
    pub index: usize,
}

/// Locators in the rising order of their keys, in pages that are not empty.
#[derive(Drop)]
pub(crate) struct WordPages {
    /// The allocator of the pages.
    alloc: Global,
    /// The locators of each page.
    pub pages: Vec<Vec<u64>>,
    /// A copy of the first locator of each page, contiguous in memory, by which pages are guessed.
    firsts: FirstLocators,
}

impl WordPages {
    /// No pages.
    pub(crate) fn new(alloc: Global) -> WordPages
        ensures { pages_of result ≡ [] }
    {
        WordPages {
            alloc,
            pages: Vec::new(alloc),
            firsts: FirstLocators::new(alloc),
        }
    }

    /// The locator of a written item that equals the item `parts`. If there is none, the error is
    /// the slot for the locator of `parts`. `fingerprint` is the fingerprint of `parts`.
    pub(crate) fn find(
        &self,
        adb: &Adb<'_>,
        parts: &Parts<'_>,
        fingerprint: u64,
    ) -> Result<u64, Slot>
        // No page is empty.
        requires filled { HaveNoEmptyPage (pages_of self.now) }
        // The locators are in the rising order of their keys.
        requires rising { HaveRisingKeys (payload_of adb.now) (concat (pages_of self.now)) }
        // On Ok, the locator has the key of the item. An error is the slot between the lower and
        // the higher keys.
        ensures { IsSearchResult (payload_of adb.now) (pages_of self.now)
            (key_with_fingerprint fingerprint parts.now)
            result }
    {
        let page = self.page_of(adb, parts, fingerprint);
        let Some(words) = self.pages.get(page) else {
            return Err(Slot { page, index: 0 });
        };
        match search(words, adb, parts, fingerprint) {
            Ok(index) => Ok(words[index]),
            Err(index) => Err(Slot { page, index }),
        }
    }

    /// The index of the page in which the item `parts` is searched: the last page that does not
    /// begin with a higher key, or the first page. `fingerprint` is the fingerprint of `parts`.
    fn page_of(&self, adb: &Adb<'_>, parts: &Parts<'_>, fingerprint: u64) -> usize
        // No page is empty.
        requires filled { HaveNoEmptyPage (pages_of self.now) }
        // The locators are in the rising order of their keys.
        requires rising { HaveRisingKeys (payload_of adb.now) (concat (pages_of self.now)) }
        // The page is the one into which a locator with the key of the item belongs.
        ensures { IsPageFor (payload_of adb.now) (pages_of self.now)
            (key_with_fingerprint fingerprint parts.now) result }
    {
        // Try the page that the fingerprint suggests. If it is another one, find it by bisection.
        let likely = self.firsts.page_of(fingerprint);
        if self.is_page_of(likely, adb, parts, fingerprint) {
            return likely;
        }
        self.pages
            .partition_point(|page| !begins_after(page, adb, parts, fingerprint))
            .saturating_sub(1)
    }

    /// Whether the item `parts` belongs into the page with the index `page`: this page does not
    /// begin with a higher key than the item's, and the next page, if there is one, does.
    fn is_page_of(&self, page: usize, adb: &Adb<'_>, parts: &Parts<'_>, fingerprint: u64) -> bool
        // On true, the page begins at or below the key of the item, and the next page above it.
        ensures { OnTrue result (IsPageAt (payload_of adb.now) (pages_of self.now)
            (key_with_fingerprint fingerprint parts.now) page) }
    {
        let Some(here) = self.pages.get(page) else {
            return false;
        };
        if begins_after(here, adb, parts, fingerprint) {
            return false;
        }
        match self.pages.get(page + 1) {
            Some(next) => begins_after(next, adb, parts, fingerprint),
            None => true,
        }
    }

    /// Inserts a locator at a slot. If memory runs out, the locators are unchanged.
    pub(crate) fn insert(&mut self, slot: Slot, locator: u64) -> Result<(), AllocError>
        // No page is empty.
        requires filled { HaveNoEmptyPage (pages_of self.old) }
        // The slot is one of these pages.
        requires inside { IsSlotIn (pages_of self.old) slot.page slot.index }
        // No page is empty.
        ensures filled { HaveNoEmptyPage (pages_of self.new) }
        // The locator is inserted at the slot.
        ensures ok { OnOk result (concat (pages_of self.new)
            ≡ locators_before_slot (pages_of self.old) slot.page slot.index
            ++ locator ∷ locators_from_slot (pages_of self.old) slot.page slot.index) }
        // After an error the locators are unchanged.
        ensures err { OnErr result (concat (pages_of self.new) ≡ concat (pages_of self.old)) }
    {
        if self.pages.is_empty() {
            return self.begin(locator);
        }
        let slot = self.make_room(slot)?;
        insert_in_page(&mut self.pages[slot.page], slot.index, locator)?;
        self.firsts.enter(slot.page, slot.index, locator);
        Ok(())
    }

    /// Makes the first page, which has only this locator.
    fn begin(&mut self, locator: u64) -> Result<(), AllocError>
        // There are no pages yet.
        requires { pages_of self.old ≡ [] }
        // On Ok, there is one page, with only this locator.
        ensures ok { OnOk result (pages_of self.new ≡ (locator ∷ []) ∷ []) }
        // After an error there is still no page.
        ensures err { OnErr result (pages_of self.new ≡ []) }
    {
        let mut page = Vec::with_capacity(self.alloc, ROOM)?;
        page.push(locator)?;
        self.firsts.add(0, &page)?;
        self.pages.push(page)?;
        Ok(())
    }

    /// Splits the page of a slot if the page is full. The result is the slot between the same
    /// locators as before.
    fn make_room(&mut self, slot: Slot) -> Result<Slot, AllocError>
        // No page is empty.
        requires filled { HaveNoEmptyPage (pages_of self.old) }
        // The slot is one of these pages.
        requires inside { IsSlotIn (pages_of self.old) slot.page slot.index }
        // There is at least one page.
        requires some { 0 < length (pages_of self.old) }
        // No page is empty.
        ensures filled { HaveNoEmptyPage (pages_of self.new) }
        // There is at least one page.
        ensures some { 0 < length (pages_of self.new) }
        // On Ok, the new slot is between the same locators as the old one.
        ensures ok { IfOk result
            (λ there. IsSameSlot (pages_of self.old) slot (pages_of self.new) there) }
        // After an error the pages are unchanged.
        ensures err { OnErr result (pages_of self.new ≡ pages_of self.old) }
    {
        if self.pages[slot.page].len() < FULL {
            return Ok(slot);
        }
        self.split(slot.page)?;
        if slot.index <= HALF {
            return Ok(slot);
        }
        Ok(Slot {
            page: slot.page + 1,
            index: slot.index - HALF,
        })
    }

    /// Splits the page with the index `page`: the locators after the first `HALF` are moved to a
    /// new page, which follows it.
    fn split(&mut self, page: usize) -> Result<(), AllocError>
        // There is a page with this index.
        requires inside { page < length (pages_of self.old) }
        // The page has more than half of the most locators.
        requires full { HALF < length (page_at (pages_of self.old) page) }
        // On Ok, the page is split in two.
        ensures ok { OnOk result (pages_of self.new ≡ with_page_split (pages_of self.old) page) }
        // After an error the pages are unchanged.
        ensures err { OnErr result (pages_of self.new ≡ pages_of self.old) }
    {
        let mut upper = Vec::with_capacity(self.alloc, HALF + ROOM)?;
        upper.extend_from_slice(&self.pages[page][HALF..])?;
        self.firsts.add(page + 1, &upper)?;
        self.pages.insert(page + 1, upper)?;
        let lower = &mut self.pages[page];
        lower.truncate(HALF);
        lower.shrink_to(HALF + ROOM);
        Ok(())
    }
}

/// Inserts a locator at an index of a page. If the page has no room, it gets room for `ROOM` more.
fn insert_in_page(page: &mut Vec<u64>, index: usize, locator: u64) -> Result<(), AllocError>
    // The index is that of a locator, or just after the last one.
    requires { index ≤ length page.old.items }
    // The locator is inserted at the index.
    ensures ok { OnOk result (page.new.items ≡ insert page.old.items index locator) }
    // After an error the page is unchanged.
    ensures err { OnErr result (page.new.items ≡ page.old.items) }
{
    if page.len() == page.capacity() {
        page.reserve_exact(ROOM)?;
    }
    page.insert(index, locator)?;
    Ok(())
}

/// Whether the key of the item `parts` is less than the key of the item that a locator names.
/// `fingerprint` is the fingerprint of `parts`.
fn is_before(adb: &Adb<'_>, parts: &Parts<'_>, fingerprint: u64, locator: u64) -> bool
    // The order of the items is that of their keys.
    ensures { result ≡ is_lt (slice_cmp nat_cmp (key_with_fingerprint fingerprint parts.now)
        (key_of_locator (payload_of adb.now) locator)) }
{
    match fingerprint.cmp(&fingerprint_of_locator(locator)) {
        Ordering::Equal => parts.compare_content(adb, word_of_locator(locator)) == Ordering::Less,
        by_fingerprint => by_fingerprint == Ordering::Less,
    }
}

/// Whether the first locator of a page has a higher key than the item `parts`, whose fingerprint is
/// `fingerprint`; false for an empty page.
fn begins_after(page: &[u64], adb: &Adb<'_>, parts: &Parts<'_>, fingerprint: u64) -> bool
    // The result is that of the definition, for the key of the item.
    ensures { result ≡ page_begins_above_key (payload_of adb.now)
        (key_with_fingerprint fingerprint parts.now) page.now }
{
    match page.first() {
        Some(locator) => is_before(adb, parts, fingerprint, *locator),
        None => false,
    }
}

/// The index in a page of the locator of an item that equals `parts`. If there is none, the error
/// is the index at which the locator of `parts` would be inserted. The search begins near the
/// likely index, so that few bytes of a page are read.
fn search(page: &[u64], adb: &Adb<'_>, parts: &Parts<'_>, fingerprint: u64) -> Result<usize, usize>
    // The locators of the page are in the rising order of their keys.
    requires rising { HaveRisingKeys (payload_of adb.now) page.now }
    // On Ok, the locator at the index has the key of the item. An error is the index between the
    // lower and the higher keys.
    ensures { IsPageSearchResult (payload_of adb.now) page.now
        (key_with_fingerprint fingerprint parts.now) result }
{
    // Only the locators from `from` to `to` can have this fingerprint.
    let likely = likely_index(page, fingerprint);
    let from = lower_end(page, fingerprint, likely);
    let to = upper_end(page, fingerprint, likely);
    let near = &page[from..to];
    // `compare` gives the order of the item `parts` and a written item. The search needs the order
    // of the written item and `parts`, so each result is reversed.
    match near.binary_search_by(|it| parts.compare(fingerprint, adb, *it).reverse()) {
        Ok(index) => Ok(from + index),
        Err(index) => Err(from + index),
    }
}

/// The index at which a locator with this fingerprint would be if the fingerprints of the page had
/// equal distances.
fn likely_index(page: &[u64], fingerprint: u64) -> usize
    // The index is at most the number of locators.
    ensures { result ≤ length page.now }
{
    let (Some(first), Some(last)) = (page.first(), page.last()) else {
        return 0;
    };
    let low = fingerprint_of_locator(*first);
    let high = fingerprint_of_locator(*last);
    if fingerprint <= low {
        return 0;
    }
    if fingerprint >= high {
        return page.len();
    }
    // If the product does not fit in 64 bits, the guess is bad, but the search still succeeds.
    let index = (fingerprint - low).wrapping_mul(page.len() as u64) / (high - low);
    page.len().min(index as usize)
}

/// An index, at most `likely`, before which all locators have lower fingerprints.
fn lower_end(page: &[u64], fingerprint: u64, likely: usize) -> usize
    // The index is not after the likely one.
    ensures inside { result ≤ likely }
    // If the keys of the page are in order, all locators before the result have lower keys.
    ensures lower { (payload content : List ℕ) → HaveRisingKeys payload page.now
        → AllCompareToKey Greater payload (fingerprint ∷ content) (take result page.now) }
{
    let low = likely.saturating_sub(NEARBY);
    match page.get(low) {
        Some(locator) if fingerprint_of_locator(*locator) < fingerprint => low,
        _ => 0,
    }
}

/// An index, at least `likely`, from which on all locators have higher fingerprints.
fn upper_end(page: &[u64], fingerprint: u64, likely: usize) -> usize
    // The likely index is at most the number of locators.
    requires { likely ≤ length page.now }
    // The index is at most the number of locators.
    ensures inside { result ≤ length page.now }
    // The index is not before the likely one.
    ensures behind { likely ≤ result }
    // If the keys of the page are in order, all locators from the result on have higher keys.
    ensures higher { (payload content : List ℕ) → HaveRisingKeys payload page.now
        → AllCompareToKey Less payload (fingerprint ∷ content) (drop result page.now) }
{
    let high = likely.saturating_add(NEARBY);
    match page.get(high) {
        Some(locator) if fingerprint < fingerprint_of_locator(*locator) => high,
        _ => page.len(),
    }
}
