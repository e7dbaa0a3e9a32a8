//! Converts the text database of version 2 of apk-tools: `read_v2` takes the bytes of
//! `lib/apk/db/installed`, and returns the payload of the installed database, or the first bad
//! line.
//!
//! The contracts cite `Payload` (what comes out), `Reading` (the records of a text), `Records` and
//! `Database` (the value of records) of `specs/`. What a line says is defined in `InfoFields` (the
//! letters, and the grammar of each one's values), `InfoValues`, `Accesses` and `Lines`.
//! The rules are in `docs/formats.md`, "Text database of version 2".
#![tactic(auto)]

mod access;
mod field;
mod line;
mod read;
mod record;
mod value;
mod writing;

pub use field::{Grammar, InfoField};
pub use read::{
    V2Fault, read_v2, the_reported_line_is_the_first_that_no_text_has,
    the_text_of_records_is_read_back,
};
