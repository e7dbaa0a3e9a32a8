//! Whether a change of names makes one name a folder of another.
//!
//! The change is given by the paths that it writes, and by an `IsReleased`, which says which names
//! it releases. `first_clash` searches only near the paths: the folders above them, and the names
//! below them. The contracts cite `Clash`, `FirstClash` and `WrittenPaths` of
//! `specs/`. The rule is in `docs/commands.md`, "What a change does with files", test 2; the terms
//! *clash* and *counts as written* in `docs/names.md`, "The installed database and a change of it".
#![tactic(auto)]

mod clash;
mod near;

pub use adb_fields::FilePath;
pub use clash::{
    Clash, IsReleased, a_change_has_one_first_clash, changes_that_agree_clash_alike,
    files_without_a_clash_have_no_file_as_folder, first_clash, path_bytes,
};
