//! Who owns a path that several members list (apk-package(5), "replaces").
//!
//! A claim is an entry for a file in a member. `owners_of` sorts claims by their paths, and finds
//! for each path the member that beats every other member that claims it. A `Contest` says which
//! member beats which. The contracts cite `Contest` and `Claims` of `specs/`. The rules are in
//! `docs/commands.md`, "Files that several packages list"; the terms in `docs/names.md`, "The
//! installed database and a change of it".
#![tactic(auto)]

mod claim;
mod contest;
mod owner;

pub use adb_fields::{FilePath, field_word, objects_field};
pub use claim::{Claim, begins_path, run_at, sort_claims};
pub use contest::{Contest, Rivals};
pub use owner::{Contested, Owners, a_path_has_one_owner, owners_of};
