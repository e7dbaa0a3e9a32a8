//! Copies values of one container into another (apk-v3(5)): the information of a package, its files
//! and their access lists, and its scripts.
//!
//! Each call takes a word of a payload and adds its value to a draft. An integer 0 becomes NULL, at
//! every depth. Many places may share a long text: `KnownTexts` remembers those of one payload that
//! the draft already contains. The README of this crate says how equal texts are found. The
//! contracts cite `Zeros` of `specs/` (values without an integer 0, and an information with another
//! id and length) and `Known` (the texts of a draft).
//!
//! The rules are in `docs/formats.md`: "The database after a change" (the zeros, and the
//! information of an added package), "Canonical layout" (how a draft writes values, and that a blob
//! is written once) and "Schemas" (the fields, by their numbers).
#![tactic(auto)]

mod copy;
mod entry;
mod fingerprints;
mod known_texts;
mod overlaps;
mod sums;

pub use adb_fields::{
    field_word, hash_field, int_field, no_repeated_name_is_reported_if_there_is_none,
    objects_field, texts_field, the_first_pair_in_one_of_several_lists_is_reported,
};
pub use adb_values::{
    Draft, WriteFault, a_canonical_payload_is_read_back, a_value_overflows_exactly_past_a_limit,
    file_of,
};
pub use copy::{write_info, write_int, write_text_list};
pub use entry::{write_acl, write_file, write_scripts};
pub use known_texts::KnownTexts;
