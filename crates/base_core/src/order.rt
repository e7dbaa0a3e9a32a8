//! Sorted lists and byte order.
//!
//! The contracts of the crates above cite `Sorted` and `ByteOrder` of `specs/`; two laws say what
//! follows from them.
//!
//! The rules are in `docs/names.md`, *sorted* and *byte order*; `docs/formats.md`, "World" and "The
//! database after a change", uses them for names.

ghost use Rattle.base_core.specs.ByteOrder.{bytes_cmp, smallest_text};
ghost use Rattle.base_core.specs.Sorted.{sorted_by};
ghost use Rattle.std.specs.List.Sorted.{IsPermutation, IsSorted};
ghost use Rattle.std.specs.Prelude.{◌≡◌, ℕ, List, slice_get};

/// Sorting texts by their bytes keeps all texts, and leaves no text before a smaller one.
pub fn sorted_texts_are_in_order()
    // Sorting keeps the texts, each as often as before.
    ensures same { (texts : List (List ℕ)) → IsPermutation texts (sorted_by bytes_cmp texts) }
    // No text of the sorted list is before a smaller one.
    ensures sorted { (texts : List (List ℕ)) → IsSorted bytes_cmp (sorted_by bytes_cmp texts) }
{}

/// The smallest of several texts is the first of them when they are sorted.
pub fn the_smallest_text_is_sorted_first()
    ensures { (texts : List (List ℕ))
        → smallest_text texts ≡ slice_get (sorted_by bytes_cmp texts) 0 }
{}
