//! The installed database as it is read and written (apk-v3(5)), and the packages after a change.
//!
//! `Db` is the database: all data are lent from its file's bytes. `Members` are the kept and added
//! packages after a change, and `Owned` says which of the files that they list they own. `write_db`
//! takes the members of a change and the files that they own, and returns the bytes of the new
//! database. The contracts cite these modules of `specs/`: `Members` (members and the files that
//! they list), `Packages` (the packages of a database), `NewDatabase` (the new database, field by
//! field, and its file) and `SoundMembers` (members that are from sound containers). `laws` states
//! what a written database contains when it is read.
//! The rules are in `docs/formats.md`, "Schemas", tables 5, 7 and 9, "Tests of a container" and
//! "The database after a change", and in `docs/commands.md`, "`info`" (who owns a path).
#![tactic(auto)]

mod database;
mod db;
mod folders;
mod laws;
mod listed_paths;
mod members;
mod name_places;
mod owned;
mod packages;

pub use adb_write::WriteFault;
pub use database::write_db;
pub use db::{Db, open_idb, payload_in};
pub use laws::{
    a_database_keeps_the_entries_of_owned_files, a_database_lists_the_owned_files,
    a_database_of_sound_packages_may_be_the_root, a_database_without_changes_stays_the_same,
    a_package_keeps_its_folders, a_package_keeps_its_information,
    a_package_keeps_its_scripts_and_its_priority, a_written_database_is_read_back,
    a_written_database_is_written_again_alike, packages_of_sound_containers_may_be_members,
};
pub use members::{MOST_MEMBERS, Members, listings_are_at_their_places};
pub use owned::Owned;
pub use pkg_core::{
    Contents, DepView, DirInfo, FileInfo, FilePath, Front, FrontFault, IdbView, IndexView, List,
    PACKAGE_WORD, PIECE_LEN, PackageFault, PackageView, PkgInfo, ReadFault, View, Which, read_adb,
    read_front,
};
