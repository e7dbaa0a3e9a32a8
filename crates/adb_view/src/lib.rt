//! The values of an ADB payload (apk-v3(5)), read in place. The crate also has the tables of the
//! containers, and the walk that tests the shape of a payload against a table.
//!
//! The readers take a payload's bytes and a value's word. They return integers, slices of the
//! payload, and views of its arrays and objects. The ten tables are constants. `shape` walks a
//! payload from its root, as an object of a table, and returns a `Shaped`. Nothing is copied, and
//! no memory is allocated.
//!
//! The contracts cite these modules of `specs/`:
//!
//! - `Head`: the bytes before the values;
//! - `Readers`: the meaning of a word;
//! - `Plain`: plain values and the shapes of fields;
//! - `Shaped`: the values of a shape;
//! - `Visits`: the words below a word;
//! - `Schema`: the tables, as the program's constants have them, and the shapes of their fields;
//! - `FormatTables`: the same tables, as `docs/formats.md` lists them;
//! - `Walk`: the first fault of the walk;
//! - `Values`: plain values of words, and their fields;
//! - `ShapedPayload`: the contents of a walked payload.
//!
//! The indexes of fields are in `field_indexes`, and for the contracts in `FieldIndexes`.
//!
//! The rules are in `docs/formats.md`, "Values", "Schemas" (the tables) and "The shape" (the walk).
#![tactic(auto)]

mod adb;
pub mod field_indexes;
mod readers;
mod run;
mod shaped;
mod tables;
mod visit_fault;
mod walk;
mod words;

pub use adb::{
    Adb, value_is_found_where_visits_are_sound, values_are_normal, values_have_their_shape,
};
pub use run::{Arr, Obj};
pub use shaped::Shaped;
pub use tables::{
    ACL, DEP, DIR, FILE, Field, FieldName, IDB, INDEX, INTENT, Kind, PACKAGE, PKGINFO, SCRIPTS,
    Schema, Which, fields_of, number_of, tables_are_as_listed, tables_are_unrolled_whole,
};
pub use walk::{
    a_walk_of_fields_reports_the_first_faulty_visit, entry_word, shape,
    the_first_faulty_visit_is_reported, values_of_few_visits_have_no_fault, walk_fields,
};
pub use words::Val;
