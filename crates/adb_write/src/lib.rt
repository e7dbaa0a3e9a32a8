//! Writes the values of an ADB payload (apk-v3(5)), in one canonical layout, and the file around
//! it.
//!
//! Each call takes a value, entries before the lists that contain them, and returns the value's
//! word. `Writer::finish` returns the payload. Only the root's word is written twice, and the
//! payload is never copied. The contracts cite these modules of `specs/`, and `laws` has theorems
//! about them:
//!
//! - `Canonical`: the layout of a value, and when it overflows;
//! - `Size`: the bytes of its payload and the number of its values;
//! - `File`: the file around a payload;
//! - `Writing`: a writer, and the effect of each call;
//! - `DepthFirst`: what a writer wrote between two of its states;
//! - `Denotes`: what a word represents.
//!
//! The rules are in `docs/formats.md`, "Canonical layout".
#![tactic(auto)]

mod first_locators;
mod item;
mod laws;
mod locator;
mod store;
mod word_pages;
mod writer;

pub use laws::{
    a_canonical_payload_is_read_back, a_canonical_payload_is_visited_once, a_file_is_spelled,
    a_finished_payload_is_read_back, a_value_is_stored_once, a_value_is_written_up_to_both_limits,
    a_value_overflows_exactly_past_a_limit, a_value_written_depth_first_is_canonical,
    a_word_is_read_as_its_value, a_word_keeps_its_value, an_answer_denotes_its_value,
    values_are_written_depth_first,
};
pub use writer::{WriteFault, Writer, file_in_place, file_of};
