//! Makes packages and indexes (apk(8), `mkpkg` and `mkndx`): it takes a command and a tree, and
//! returns the bytes of a sound container.
//!
//! `packages` makes a package, and `indexes` makes an index. The contracts cite `Making` (the
//! package of a command) and `Index` (the index of a command) of `specs/`. An index has the entries
//! that `Entries` defines, in the order of `EntryOrder`. What a package is made of, and its value,
//! is defined in `package_files`; the information of a package and the output's name, in
//! `make_info`. `laws` says that the results are sound and are read back.
//! The rules are in `docs/commands.md`, "`mkpkg`" and "`mkndx PACKAGE..`"; what the tests of a
//! container are, in `docs/formats.md`, "Tests of a container".
#![tactic(auto)]

mod commands;
mod indexes;
mod laws;
mod packages;

pub use adb_copy::{
    a_canonical_payload_is_read_back, a_value_overflows_exactly_past_a_limit,
    no_repeated_name_is_reported_if_there_is_none,
};
pub use commands::{mkndx, mkpkg};
pub use indexes::{
    an_entry_is_an_info, an_entry_is_ordered_by_its_named_fields, an_index_is_in_order,
    entries_stand_by_name_version_and_id,
};
pub use laws::{
    a_made_index_has_its_packages_in_order, a_made_index_is_read_back, a_made_index_is_sound,
    a_made_package_has_the_files_below_its_folder, a_made_package_is_read_back,
    a_made_package_is_sound, a_missing_file_is_reported_at_its_option,
};
pub use make_info::{
    Information, MakeFault, a_package_with_information_has_an_output, an_index_has_an_output,
    an_output_is_short, output_name, read_information,
};
pub use packages::{
    a_part_is_in_the_field_of_its_name, each_name_is_in_one_folder,
    the_fields_of_a_file_are_those_of_its_bytes, the_installed_size_is_that_of_the_contents,
};
pub use pkg_core::{
    a_package_is_tested_by_its_values_and_then_its_files, no_text_is_bad_where_each_keeps_its_rule,
    sound_containers_hold_sound_values, the_first_bad_text_is_reported,
};
