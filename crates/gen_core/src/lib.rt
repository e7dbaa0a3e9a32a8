//! Reads a dump text, the text that `adbdump` prints, and makes a container with the same root, in
//! its canonical layout and without contents of files (`adbgen`).
//!
//! A text is read from front to end in one pass, by the tables of fields (`adb_schema`), and its
//! values are written as they are read (`adb_values`). The first line that no dump has after the
//! lines before it is reported by its number. The contracts cite `Generated` of `specs/`, which
//! uses the reader that `adb_dump` defines (`ReadBack`). The laws say which texts are read, and
//! which line is reported, by the definition of dump texts alone, so nobody has to read `ReadBack`.
//!
//! The rules are in `docs/formats.md`, "Dump text" and "Canonical layout".
#![tactic(auto)]

mod cursor;
mod generate;
mod laws;
mod read;
mod value;

pub use adb_dump::{sound_containers_hold_sound_values, values_found_in_bytes_are_of_their_table};
pub use adb_values::{
    a_canonical_payload_is_read_back, a_canonical_payload_is_visited_once,
    a_value_overflows_exactly_past_a_limit,
};
pub use generate::{GenFault, gen_};
pub use laws::{
    a_text_is_accepted_exactly_if_a_root_has_it, the_reported_line_is_the_first_that_no_dump_has,
};
