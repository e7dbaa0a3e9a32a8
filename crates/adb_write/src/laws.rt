//! Laws (theorems) about the definitions of this crate, for every value and every writer. Each is
//! proved as the contract of a function that computes nothing. The rules are in `docs/formats.md`,
//! "Canonical layout"; the README of this crate lists the laws.
ghost use Rattle.std.specs.Prelude.{◌≡◌, ◌≤◌, ◌<◌, ◌^◌, ◌⊎◌, ℕ, List, [], ◌∷◌, ◌++◌, false, true, length, Some, Ok, is_some};
ghost use Rattle.adb_view.specs.Plain.{Plain, null, int, Plains, none, more, blob_or_null, array_or_null, trimmed_object_or_null, Shape, IsNormal, plain_of, root_value_with_shape};
ghost use Rattle.adb_view.specs.Head.{root_word_of_payload};
ghost use Rattle.adb_view.specs.Visits.{visits};
ghost use Rattle.adb_block.specs.Container.{IsContainerWithBlocks};
ghost use Rattle.adb_write.specs.File.{adb_block_of_payload, file_of};
ghost use Rattle.adb_write.specs.Canonical.{Layout, empty_layout_counting_root, payload_end_offset, write, canonical, exceeds_a_limit, counts_at_first_overflow, payload_or_counts_at_overflow, payload_with_root_word_in_head, MOST_BYTES};
ghost use Rattle.adb_write.specs.Size.{payload_size_of, entries_of, value_count, with_value_count_raised};
ghost use Rattle.adb_write.specs.Writing.{Writing, empty_writing_counting_root, is_past_limit, layout_of, int_call, blob_call, arr_call, obj_call, finish_result};
ghost use Rattle.adb_write.specs.DepthFirst.{WritesValueDepthFirst, WritesValuesDepthFirst, push};
ghost use Rattle.adb_view.specs.Shaped.{HasShape};
ghost use Rattle.adb_write.specs.Denotes.{Denotes, AllDenoteValuesUnlessPastLimit};

use adb_block::what_is_written_is_spelled;

/// The canonical payload of a value is read back as this value. The value must be normal and have
/// the shape, and its payload must be within the limit of bytes.
pub fn a_canonical_payload_is_read_back()
    ensures { (shape : Shape) (v : Plain)
        → IsNormal v → HasShape shape v → payload_size_of v ≤ MOST_BYTES
        → root_value_with_shape (canonical v) shape ≡ Some v }
{}

/// Which calls write a value depth first, from the state `a` of a writer to the state `b` or `c`:
/// no call for Null, and one call for an integer or a blob. A list takes the calls that write its
/// values in order, and then the call for the list with the words of these values. An empty blob or
/// list, and an object without a value, are Null.
pub fn values_are_written_depth_first()
    // Null takes no call, and has the word 0.
    ensures null { (w : Writing) → WritesValueDepthFirst w null 0 w }
    // The call `int` writes the integer.
    ensures int { (n : ℕ) (a : Writing) (x : ℕ) (b : Writing) → (x, b) ≡ int_call n a
        → WritesValueDepthFirst a (int n) x b }
    // The call `blob` writes the blob.
    ensures blob { (bytes : List ℕ) (a : Writing) (x : ℕ) (b : Writing)
        → (x, b) ≡ blob_call bytes a → WritesValueDepthFirst a (blob_or_null bytes) x b }
    // After the values `vs` were written, the call `arr` with their words `xs` writes their array.
    ensures arr { (vs : Plains) (xs : List ℕ) (a b : Writing) (x : ℕ) (c : Writing)
        → WritesValuesDepthFirst a vs xs b → (x, c) ≡ arr_call xs b
        → WritesValueDepthFirst a (array_or_null vs) x c }
    // After the values `vs` were written, the call `obj` with their words `xs` writes their object.
    ensures obj { (vs : Plains) (xs : List ℕ) (a b : Writing) (x : ℕ) (c : Writing)
        → WritesValuesDepthFirst a vs xs b → (x, c) ≡ obj_call xs b
        → WritesValueDepthFirst a (trimmed_object_or_null vs) x c }

    // The empty list of values takes no call.
    ensures none { (w : Writing) → WritesValuesDepthFirst w none [] w }
    // A value, and then the values `vs`, are written in order.
    ensures more { (v : Plain) (vs : Plains) (x : ℕ) (xs : List ℕ) (a b c : Writing)
        → WritesValueDepthFirst a v x b → WritesValuesDepthFirst b vs xs c
        → WritesValuesDepthFirst a (more v vs) (x ∷ xs) c }
    // The values `vs`, and then one more value, are written in order.
    ensures push { (v : Plain) (vs : Plains) (x : ℕ) (xs : List ℕ) (a b c : Writing)
        → WritesValuesDepthFirst a vs xs b → WritesValueDepthFirst b v x c
        → WritesValuesDepthFirst a (push vs v) (xs ++ x ∷ []) c }
{}

/// A writer that wrote one value depth first, and nothing else, ends with the canonical payload of
/// this value. If a limit was passed, it ends with the counts just after the first value that
/// exceeded the limit.
pub fn a_value_written_depth_first_is_canonical()
    ensures { (v : Plain) (root : ℕ) (w : Writing)
        → WritesValueDepthFirst empty_writing_counting_root v root w
        → finish_result root w ≡ payload_or_counts_at_overflow v }
{}

/// A word that represents a value in a writer still represents this value after each further call,
/// unless the writer passed a limit (*Denotes*).
pub fn a_word_keeps_its_value()
    // After a call `int`, the word still represents the value.
    ensures int { (n : ℕ) (w : Writing) (v : Plain) (word : ℕ)
        → Denotes w v word → Denotes (int_call n w).1 v word }
    // The same after a call `blob`.
    ensures blob { (bytes : List ℕ) (w : Writing) (v : Plain) (word : ℕ)
        → Denotes w v word → Denotes (blob_call bytes w).1 v word }
    // The same after a call `arr`.
    ensures arr { (words : List ℕ) (w : Writing) (v : Plain) (word : ℕ)
        → Denotes w v word → Denotes (arr_call words w).1 v word }
    // The same after a call `obj`.
    ensures obj { (words : List ℕ) (w : Writing) (v : Plain) (word : ℕ)
        → Denotes w v word → Denotes (obj_call words w).1 v word }
{}

/// The word that a call returns represents the value of the call in the writer after the call,
/// unless the writer passed a limit (*Denotes*). NULL represents Null.
pub fn an_answer_denotes_its_value()
    // The word 0 represents Null.
    ensures null { (w : Writing) → Denotes w null 0 }
    // The word that `int` returns represents the integer, which has 64 bits.
    ensures int { (n : ℕ) (w : Writing) → n < 2 ^ 64
        → Denotes (int_call n w).1 (int n) (int_call n w).0 }
    // The word that `blob` returns represents the blob.
    ensures blob { (bytes : List ℕ) (w : Writing)
        → Denotes (blob_call bytes w).1 (blob_or_null bytes) (blob_call bytes w).0 }
    // The word that `arr` returns represents the array of the values that the given words
    // represent.
    ensures arr { (vs : Plains) (words : List ℕ) (w : Writing)
        → AllDenoteValuesUnlessPastLimit w vs words
        → Denotes (arr_call words w).1 (array_or_null vs) (arr_call words w).0 }
    // The word that `obj` returns represents the object of the values that the given words
    // represent.
    ensures obj { (vs : Plains) (words : List ℕ) (w : Writing)
        → AllDenoteValuesUnlessPastLimit w vs words
        → Denotes (obj_call words w).1 (trimmed_object_or_null vs) (obj_call words w).0 }
{}

/// If a word represents a normal value with a shape in a writer within its limits, the word is read
/// by this shape as this value. This holds in the writer's payload with any root.
pub fn a_word_is_read_as_its_value()
    ensures { (shape : Shape) (v : Plain) (word : ℕ) (w : Writing)
        → Denotes w v word → is_past_limit w ≡ false → IsNormal v → HasShape shape v
        → (root : ℕ) → plain_of (payload_with_root_word_in_head root (layout_of w)) shape word
        ≡ Some v }
{}

/// A finished payload is read back as the value that its root represents, if this value is normal
/// and has the shape.
pub fn a_finished_payload_is_read_back()
    ensures { (shape : Shape) (v : Plain) (root : ℕ) (w : Writing) (payload : List ℕ)
        → finish_result root w ≡ Ok payload → Denotes w v root → IsNormal v → HasShape shape v
        → root_value_with_shape payload shape ≡ Some v }
{}

/// A normal value overflows if and only if its canonical payload, or the number of its values,
/// exceeds the limit of a payload.
pub fn a_value_overflows_exactly_past_a_limit()
    ensures { (v : Plain) → IsNormal v
        → is_some (counts_at_first_overflow v)
        ≡ exceeds_a_limit (payload_size_of v, value_count v) }
{}

/// A normal value is written if and only if it is within both limits. The payload must have fewer
/// than 2^28 bytes, since the offset in a word has 28 bits (apk-v3(5)). The number of values must
/// be at most 2^22, which is as many as a reader accepts.
pub fn a_value_is_written_up_to_both_limits()
    // A value within both limits is written, in the canonical layout.
    ensures written { (v : Plain) → IsNormal v → payload_size_of v < 2 ^ 28 → value_count v ≤ 2 ^ 22
        → payload_or_counts_at_overflow v ≡ Ok (canonical v) }
    // A value that exceeds a limit overflows.
    ensures refused { (v : Plain) → IsNormal v → (2 ^ 28 ≤ payload_size_of v)
        ⊎ (2 ^ 22 < value_count v)
        → is_some (counts_at_first_overflow v) ≡ true }
{}

/// A value is stored once. If it is written again, after any other value (`since`) was written, its
/// word is the same and no byte and no item is added. Only its entries are counted.
pub fn a_value_is_stored_once()
    ensures { (before v since : Plain) → IsNormal v
        → let first : ℕ × Layout = write v (write before empty_layout_counting_root).1
        in let later : Layout = (write since first.1).1
        in payload_end_offset later ≤ MOST_BYTES
        → write v later ≡ (first.0, with_value_count_raised (entries_of v) later) }
{}

/// The walk over the canonical payload of a value has as many visits as the value has values. So a
/// payload within the limits of the writer is never too large to be read.
pub fn a_canonical_payload_is_visited_once()
    ensures { (shape : Shape) (v : Plain) → IsNormal v → HasShape shape v
        → payload_size_of v ≤ MOST_BYTES
        → length (visits (canonical v) shape (root_word_of_payload (canonical v))) ≡ value_count v }
{}

/// The container that `file_of` makes follows the grammar of containers: it has this schema, and
/// one block with the payload.
pub fn a_file_is_spelled()
    ensures { (schema : ℕ) (payload : List ℕ) → schema < 2 ^ 32 → 8 ≤ length payload
        → length payload ≤ MOST_BYTES
        → IsContainerWithBlocks (file_of schema payload) schema
        (adb_block_of_payload payload ∷ []) }
{
    // A law that the proof needs; it has no effect at run time.
    what_is_written_is_spelled();
}
