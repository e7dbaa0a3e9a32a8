//! Makes a package (apk(8), `mkpkg`): it takes a command and a tree, and returns the bytes of a
//! container.
//!
//! The contract cites `Folders`, `Package` and `Sources` of `package_files` (what a package is made
//! of, and its value) and `Making` (the package of a command) of `specs/`.
//! The rules are in `docs/commands.md`, "`mkpkg`", and in `docs/formats.md`, "Schemas", table 7,
//! and "The other blocks".

mod assembly;
mod laws;
mod making;
mod reading;
mod writing;

pub use assembly::the_installed_size_is_that_of_the_contents;
pub use laws::{
    a_part_is_in_the_field_of_its_name, each_name_is_in_one_folder,
    the_fields_of_a_file_are_those_of_its_bytes,
};
pub(crate) use making::make;
