//! Makes an index of packages (apk(8), `mkndx`): it takes a command and a tree, and returns the
//! bytes of a container.
//!
//! The contracts cite `Entries` (the entry of a package), `EntryOrder` and `Index` (the index of a
//! command) of `specs/`.
//! The rules are in `docs/commands.md`, "`mkndx PACKAGE..`", and in `docs/formats.md`, "Schemas",
//! tables 3 and 8.

mod entry;
mod index;
mod source;

pub(crate) use index::make;
pub use index::{
    an_entry_is_an_info, an_entry_is_ordered_by_its_named_fields, an_index_is_in_order,
    entries_stand_by_name_version_and_id,
};
