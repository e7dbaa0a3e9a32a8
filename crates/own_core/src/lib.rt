//! The plan of files of a change of packages (`plan`): which files are removed, which are written
//! with the contents of which file of which package, and which configuration is kept as the user
//! made it. Each file that an added package owns is written under its path, written aside, or left
//! out. Each file that is left over is removed or kept.
//!
//! Of `specs/`, `FileChange` says which packages list a path before and after the change. `Fate`
//! says what is done with an added file if the user changed the file under its path. `FilesAfter`
//! says which file each name has after the change, and `NamesAfter` which names are present then.
//! `PlanLists` has the lists of names that are removed, written and kept. The functions of `laws`
//! are laws about these definitions.
//!
//! The contracts of `plan` and `parts_of` also cite `WritesSeen` and `Planned` (the plan),
//! `ClaimEntries` (the entries of files by their claims), `Sides` (a change, as claims before and
//! after it), `Fates` and `Going` (what is done with an added file, and with a file that is left
//! over), `Found` (the same, given the tree's files) and `Parts` (the files, divided by what is
//! done with them).
//!
//! The rules are in `docs/commands.md`, "What a change does with files"; the terms *aside*, *left
//! over* and *kept* in `docs/names.md`, "The installed database and a change of it". The README of
//! this crate says what is read and what is refused.
#![tactic(auto)]

mod claim_change;
mod clashes;
mod coming;
mod entries;
mod fate;
mod fault;
mod guarded;
mod laws;
mod parts;
mod planning;
mod writes;

pub use claim_change::ClaimChange;
pub use coming::{added_claims, comes};
pub use fault::PlanFault;
pub use file_guard::PackageView;
pub use file_owners::{Db, no_path_is_owned_by_two_members};
pub use guarded::name_beside;
pub use laws::{
    a_name_has_one_place_in_a_plan, a_name_that_nobody_lists_is_not_touched,
    an_added_file_takes_its_path, configuration_that_the_user_changed_is_kept,
    the_file_of_a_kept_package_is_not_touched, the_files_after_a_change_are_under_its_names,
    the_files_of_an_added_package_are_as_listed, the_lists_of_a_plan_hold_just_its_names,
    the_lists_of_a_plan_rise, the_names_after_a_change_are_those_of_its_files,
    the_records_of_a_change_are_under_their_names, what_differs_is_written_beside_the_users_file,
    what_is_kept_is_unchanged, what_is_left_over_is_removed_unless_it_is_the_users,
    what_is_removed_is_not_reserved, what_is_removed_was_listed_before,
    what_is_written_is_not_reserved, what_is_written_is_owned_by_an_added_package,
    what_is_written_takes_its_name,
};
pub use parts::{Parts, parts_of};
pub use planning::{FilePlan, plan};
pub use writes::{Write, Writes};
