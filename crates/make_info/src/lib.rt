//! The information of a package by the options of `mkpkg` (apk(8)), and the name of its container:
//! it takes a command, and returns an information, its value and a name.
//!
//! The contracts cite `Fields`, `FieldTexts`, `Values`, `Information`, `Output` and `Reads` of
//! `specs/`.
//! The rules are in `docs/commands.md`, "`mkpkg`".
#![tactic(auto)]

mod fault;
mod field;
mod information;
mod output;
mod writing;

pub use adb_values::{Draft, WriteFault};
pub use fault::MakeFault;
pub use field::{Kind, read_number};
pub use information::{
    Information, an_option_gives_the_field_of_its_name, read_information, read_need,
    the_first_value_that_offends_is_reported,
};
pub use output::{
    a_package_with_information_has_an_output, an_index_has_an_output, an_output_is_short,
    output_name,
};
pub use writing::{write_need, write_number, write_size};
