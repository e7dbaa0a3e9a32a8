//! Who owns the files that packages list after a change (apk-package(5), "replaces").
//!
//! `owners_of_files` takes the members, that is, the kept and added packages after a change. It
//! returns, for each file that a member lists, whether this member owns it. `claims_in_database`
//! returns the claims of the packages of a database, that is, their entries for files. The
//! contracts cite `Replaces` (which package takes over the files of another) and `Owners` of
//! `specs/`. The rules are in `docs/commands.md`, "Files that several packages list"; the terms in
//! `docs/names.md`, "The installed database and a change of it".
#![tactic(auto)]

mod database;
mod gather;
mod named;
mod owner;
mod questions;

pub use database::claims_in_database;
pub use db_core::{Db, Members, Owned};
pub use owner::{
    no_path_is_owned_by_two_members, no_two_packages_take_over_from_each_other, owners_of_files,
};
pub use path_claims::{Claim, Contested, Owners, Rivals};
