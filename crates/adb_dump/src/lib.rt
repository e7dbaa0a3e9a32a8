//! The text of a container's values, for a person to read and for a program to read back.
//!
//! Of a payload with a known shape (`Shaped`) the crate writes the text: `#%SCHEMA: ` and the
//! schema in eight hexadecimal digits, and then the fields of the root that are not Null, in the
//! order of their table (apk-v3(5)).
//!
//! - `name: ` precedes an integer in decimal digits, a hash in hexadecimal digits, or a text.
//! - An object and an array are below `name:`, two spaces deeper. Each entry of an array is after
//!   `- `, and a Null entry is `- null`.
//! - A text is written as it is if it needs no quotes, and else between quotes with the escapes
//! `\n`,
//!   `\\`, `\"` and `\x`.
//!
//! So a text is that of exactly one value.
//!
//! The values are read in place, and the text is written from front to end, into memory for four
//! times the payload's bytes. A longer text is written twice: first its bytes are
//! counted, for which each long text is read once, and then it is written into memory of that size.
//! The contracts cite `Dump` (the lines of a value, and the text), `Values` (the values that a text
//! can represent) and `ReadBack` (the value of lines) of `specs/`; `Words`, `Margin` and `Out`
//! serve the inner contracts. The rules are in `docs/formats.md`, "Dump text"; plain values, and
//! when one is Null, are defined in "Values" there.
#![tactic(auto)]

mod block;
mod front;
mod laws;
mod line;
mod text_out;
mod words;

pub use adb_schema::{
    Field, FieldName, IDB_WORD, INDEX_WORD, INTENT_WORD, Kind, PACKAGE_WORD, ReadFault, Shaped,
    Which, fields_of, header_schema_if_root_table, is_reserved, shape,
    sound_containers_hold_sound_values,
};
pub use block::{dump, has_one_line};
pub use laws::{
    lines_of_values_are_read_back, only_lines_of_values_are_read, texts_are_split_into_their_lines,
    values_found_in_bytes_are_of_their_table, values_of_one_text_are_equal,
};
pub use line::needs_no_quotes;
