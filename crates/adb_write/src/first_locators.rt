//! A copy of the first locators of all pages of `word_pages`, contiguous in memory. With it the
//! page of an item is guessed.
//!
//! `word_pages` tests each guess, so no contract mentions the copy.
//!
//! How locators are stored is described in the README of this crate. Locators serve the rule in
//! `docs/formats.md`, "Canonical layout" ("Equal values are stored once").

use crate::locator::fingerprint_of_locator;
use std::alloc::{AllocError, Global};

/// The first locator of each page, in the order of the pages.
#[derive(Drop)]
pub(crate) struct FirstLocators {
    /// The first locators, in the order of the pages.
    locators: Vec<u64>,
}

impl FirstLocators {
    /// The object at the beginning, when there are no pages.
    pub(crate) fn new(alloc: Global) -> FirstLocators {
        FirstLocators {
            locators: Vec::new(alloc),
        }
    }

    /// The index of the page in which an item with this fingerprint is searched first: the last
    /// page whose first fingerprint is not higher, or the first page.
    pub(crate) fn page_of(&self, fingerprint: u64) -> usize {
        self.locators
            .partition_point(|first| fingerprint_of_locator(*first) <= fingerprint)
            .saturating_sub(1)
    }

    /// Inserts the first locator of a new page, at the index of this page; `locators` has all
    /// locators of the page.
    pub(crate) fn add(&mut self, page: usize, locators: &[u64]) -> Result<(), AllocError> {
        if let Some(first) = locators.first() {
            if page <= self.locators.len() {
                self.locators.insert(page, *first)?;
            }
        }
        Ok(())
    }

    /// Updates the first locator of a page after `locator` was inserted in the page at `index`.
    pub(crate) fn enter(&mut self, page: usize, index: usize, locator: u64) {
        if index == 0 && page < self.locators.len() {
            self.locators[page] = locator;
        }
    }
}
