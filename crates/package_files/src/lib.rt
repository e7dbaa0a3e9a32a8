//! The files of a package (apk-package(5)): the folder of each name that a tree lists, and the
//! files read, each once and directly into the place of its contents.
//!
//! The contracts cite `Folders` (the folders of a package), `Package` (what a package is made of,
//! and its value), `Sources` (what is read of a tree), `Runs` (how a result relates to what the
//! reads find) and `Packed` (the packed files) of `specs/`. The rules are in `docs/commands.md`,
//! "`mkpkg`", part "Files", and in `docs/formats.md`, "The other blocks" (positions and order of
//! contents).
#![tactic(auto)]

mod file;
mod folders;
mod packing;

pub use adb_schema::PACKAGE_WORD;
pub use adb_sound::{
    a_container_of_a_good_value_is_sound, a_package_of_a_good_value_and_its_contents_is_sound,
    contents_are_in_their_container, what_a_container_is_made_of_is_read_back,
};
pub use adb_write::file_of;
pub use file::{File, FileKind, Folder, Packing};
pub use folders::folder_of;
pub use make_info::{Draft, Information, MakeFault, read_information, write_number, write_size};
pub use packing::{pack_names, put_in_front, read_file};
