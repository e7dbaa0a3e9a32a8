//! The entry of the file of a claim, in a package of the old database or of a member after the
//! change.
//! `docs/commands.md`, "What a change does with files", has the table of when a file's bytes are as
//! its entry lists them; `docs/formats.md`, "Schemas", table 4, has the entry's fields.

ghost use Rattle.std.specs.Prelude.{◌-◌, ◌<◌, ◌≤◌};
ghost use Rattle.path_claim_lists.specs.adb_fields.ListValue.{list_value};
ghost use Rattle.file_guard.specs.adb_schema.Views.{package_value};
ghost use Rattle.adb_view.specs.FieldIndexes.{PACKAGE_PATHS_INDEX};
ghost use Rattle.adb_view.specs.Values.{count_of, entries_in, entry_at_index};
ghost use Rattle.file_owners.specs.db_core.Members.{members_of_kept};
ghost use Rattle.file_owners.specs.db_core.Seen.{members_of, packages_of};
ghost use Rattle.file_guard.specs.Listed.{DescribesEntry};
ghost use Rattle.path_claim_lists.specs.path_claims.Seen.{claim_seen};
ghost use Rattle.own_core.specs.ClaimEntries.{HasFileAt, IsClaimOf, claim_entry, listed_file_at};

use file_guard::{DirInfo, FileInfo, List, ListedFile, PackageView, listed_file};
use file_owners::{Db, Members};
use path_claim_lists::Claim;
use std::marker::PhantomData;

/// The entry of the file at the position `file`, counted from 1, in the list of files of a folder.
fn listed_in_files<'a>(files: &List<'a, FileInfo<'a>>, file: u32) -> ListedFile<'a>
    // Positions count from 1.
    requires low { 0 < file }
    // The folder has a file at this position.
    requires high { file ≤ count_of (entries_in (list_value files.now)) }
    ensures { DescribesEntry result (entry_at_index (list_value files.now) (file - 1)) }
{
    let file = files.get(file as usize);
    listed_file(&file)
}

/// The entry of the file at the position `file` in the folder at the position `folder` of a
/// package's list of folders. Positions count from 1.
fn listed_in_folders<'a>(folders: &List<'a, DirInfo<'a>>, folder: u32, file: u32) -> ListedFile<'a>
    // The list has a file at these positions.
    requires { HasFileAt (list_value folders.now) folder file }
    ensures { DescribesEntry result (listed_file_at (list_value folders.now) folder file) }
{
    let folder = folders.get(folder as usize);
    listed_in_files(&folder.files(), file)
}

/// The entry of the file of the claim, which is one of the files of this package.
fn listed_in<'a>(pkg: &PackageView<'a>, claim: &Claim<'_>) -> ListedFile<'a>
    // The package has a file at the positions of the claim.
    requires { HasFileAt (entry_at_index
        (package_value pkg.now) PACKAGE_PATHS_INDEX) claim.now.folder
        claim.now.file }
    ensures { DescribesEntry result
        (listed_file_at (entry_at_index
        (package_value pkg.now) PACKAGE_PATHS_INDEX) claim.now.folder
        claim.now.file) }
{
    listed_in_folders(&pkg.paths(), claim.folder, claim.file)
}

/// The entry of the file of the claim, which is that of a member after the change.
pub(crate) fn listed_after<'a>(members: &Members<'a>, claim: &Claim<'_>) -> ListedFile<'a>
    // The claim is of a file of one of the members.
    requires { IsClaimOf (members_of members.now) (claim_seen claim.now) }
    ensures { DescribesEntry result (claim_entry (members_of members.now) (claim_seen claim.now)) }
{
    listed_in(members.view(claim.member as usize), claim)
}

/// The entry of the file of the claim, which is that of a package of the database. The argument
/// `_mark` has no effect at run time: it names the type of the view of the package, which is made
/// here, for the borrow checker.
pub(crate) fn listed_before<'a>(
    db: &Db<'a>,
    claim: &Claim<'_>,
    _mark: PhantomData<PackageView<'a>>,
) -> ListedFile<'a>
    // The claim is of a file of a package of the database.
    requires { IsClaimOf (members_of_kept (packages_of db.now)) (claim_seen claim.now) }
    ensures { DescribesEntry result
        (claim_entry (members_of_kept (packages_of db.now)) (claim_seen claim.now)) }
{
    let pkg = db.package(claim.member as usize);
    listed_in(&pkg, claim)
}
