//! Words in byte order, among which a word is found by bisection. No document has a rule for them:
//! the contracts are those of `SortedWords::of` and `has`, as the README of this crate says.
//! `keeping` looks up the names that a command upgrades.
ghost use Rattle.std.specs.Prelude.{◌≡◌, map, IfOk};
ghost use Rattle.std.specs.List.{list_any};
ghost use Rattle.std.specs.List.Sorted.{IsPermutation};
ghost use Rattle.std.specs.Str.{bytes_eq};

use base_core::Words;
use std::alloc::{AllocError, Global};
use std::marker::Model;

/// The words of a list, in byte order.
#[derive(Drop)]
pub struct SortedWords<'a> {
    /// The words, which are borrowed.
    words: Vec<&'a [u8]>,
}

impl<'a> Model for SortedWords<'a> {
    ghost use Rattle.std.specs.Prelude.{ℕ, List, map};
    ghost use Rattle.std.specs.List.Sorted.{IsSorted};
    ghost use Rattle.option_ranks.specs.candidate_core.Rank.{bytes_cmp};

    ghost Value = { List (List ℕ) };

    // The value is the list of the words, in this order.
    ghost view = { λ sorted. map (λ word. word.now) sorted.words.items };

    // The words are in byte order.
    ghost invariant = { λ sorted. IsSorted (λ one other. bytes_cmp one.now other.now)
        sorted.words.items };
}

impl<'a> SortedWords<'a> {
    /// The words of a list, in byte order. For n words, the time is linear in n log n.
    pub fn of(alloc: Global, words: &'a Words) -> Result<SortedWords<'a>, AllocError>
        ensures { IfOk result (λ sorted. IsPermutation words.entry.now sorted) }
    {
        let mut sorted = borrowed_words(alloc, words)?;
        sorted.sort()?;
        Ok(SortedWords { words: sorted })
    }

    /// Whether a word is one of the list, in time linear in log n for n words.
    pub fn has(&self, word: &[u8]) -> bool
        ensures { result ≡ list_any (bytes_eq word.now) self.now }
    {
        self.words.binary_search(&word).is_ok()
    }
}

// The words of a list, borrowed, in the order of the list.
fn borrowed_words<'a>(alloc: Global, words: &'a Words) -> Result<Vec<&'a [u8]>, AllocError>
    ensures { IfOk result (λ borrowed. map (λ word. word.now) borrowed.items ≡ words.entry.now) }
{
    let mut borrowed = Vec::with_capacity(alloc, words.len())?;
    for i in 0..words.len() {
        borrowed.push(words.word(i))?;
    }
    Ok(borrowed)
}
