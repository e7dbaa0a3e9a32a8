//! What follows from the definitions of a package and of an index that were made: in the terms of
//! the format, independent of how they are made.
//!
//! The laws cite the definitions of `specs/making/`, and those of `make_info`, `make_core`,
//! `make_core` and `make_core`.
//! The rules are in `docs/commands.md`, "`mkpkg`" and "`mkndx PACKAGE..`", and in
//! `docs/formats.md`, "Schemas", by the names of the fields there.

pub mod packages;
pub mod values;
