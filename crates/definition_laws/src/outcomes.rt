//! Laws above the outcomes of `verify`, `adbdump`, `version`, `demo`, `mkpkg` and `mkndx`.
//!
//! The rules are in `docs/commands.md`, in the section of each command.

pub mod demo;
pub mod dump;
pub mod failures;
pub mod make;
pub mod verify;
pub mod version;
