//! Plain values are written one after another, and callers speak of the values alone.
//!
//! A `Draft` takes integers, blobs and Nulls, and opens and closes the lists that contain them.
//! Values are written at once, so a draft needs the memory of a payload and four bytes for each
//! entry of an open list. The contracts cite `Drafts` (a draft, and the values added to it) and
//! `Written` (how it ends) of `specs/`.
//!
//! The rules are in `docs/formats.md`, "Canonical layout".
#![tactic(auto)]

mod draft;

pub use adb_write::{
    WriteFault, a_canonical_payload_is_read_back, a_canonical_payload_is_visited_once,
    a_value_overflows_exactly_past_a_limit, file_in_place, file_of,
};
pub use draft::Draft;
