//! `claims_in_database`: the files that the packages of a database list, as claims.
//! `docs/formats.md`, "Schemas", tables 4, 5, 7 and 9, says what a database lists;
//! `docs/commands.md`, "Files that several packages list", that a kept package claims those files.

ghost use Rattle.std.specs.Prelude.{◌≡◌, ◌<◌, [], Some, IfOk, length, map, slice_get};
ghost use Rattle.db_core.specs.Members.{Member, listings_of_member, listings_of_members, member_of_kept};
ghost use Rattle.db_core.specs.Seen.{packages_of};
ghost use Rattle.base_core.specs.Sorted.{sorted_by};
ghost use Rattle.path_claims.specs.Claims.{claim_cmp};
ghost use Rattle.path_claims.specs.Seen.{claim_seen};
ghost use Rattle.file_owners.specs.Gathered.{claims_with_listings};
ghost use Rattle.file_owners.specs.Owners.{claims_in};

use crate::gather::{add_folders, count_files};
use db_core::{Db, PackageView};
use path_claims::{Claim, sort_claims};
use std::alloc::{AllocError, Global};
use std::marker::PhantomData;

/// The claims of the packages of a database, as if they were members that are all kept, in byte
/// order of the paths. Claims of the same path are in the order of the packages.
///
/// # Errors
///
/// The program is out of memory.
pub fn claims_in_database<'a>(alloc: Global, db: &Db<'a>) -> Result<Vec<Claim<'a>>, AllocError>
    // On Ok, these are the claims of the packages as kept members, in byte order of their paths.
    ensures { IfOk result (λ claims. map claim_seen claims.items
        ≡ sorted_by claim_cmp (claims_in (map member_of_kept (packages_of db.now)))) }
{
    let mut sorted = listed_files(alloc, db)?;
    sort_claims(&mut sorted)?;
    Ok(sorted)
}

/// How many files all packages of the database list.
fn count_listed(db: &Db<'_>) -> usize {
    let mut count: usize = 0;
    for i in 0..db.len() {
        count = count.saturating_add(count_in_package(db, i, PhantomData));
    }
    count
}

/// How many files the package with the index `i` in the database lists. The argument `_mark` has no
/// effect at run time, as in `add_package`.
fn count_in_package<'a>(db: &Db<'a>, i: usize, _mark: PhantomData<PackageView<'a>>) -> usize
    // The index is that of one of the database's packages.
    requires { i < length (packages_of db.now) }
{
    let package = db.package(i);
    count_files(&package.paths())
}

/// The claims of the packages of a database, in the order of packages, folders and files.
fn listed_files<'a>(alloc: Global, db: &Db<'a>) -> Result<Vec<Claim<'a>>, AllocError>
    // On Ok, these are the claims of the packages as kept members, in the order of the members.
    ensures { IfOk result (λ claims. map claim_seen claims.items
        ≡ claims_with_listings [] (listings_of_members (map member_of_kept (packages_of db.now)))) }
{
    // The memory for all claims is asked for at once: a list that grows would leave smaller copies
    // of itself in memory.
    let mut claims = Vec::with_capacity(alloc, count_listed(db))?;
    for i in 0..db.len() {
        add_package(&mut claims, db, i, PhantomData)?;
    }
    Ok(claims)
}

/// Adds the claims of the package with the index `i` in the database. The argument `_mark` has no
/// effect at run time: it names the type of the view of the package, which is made here, for the
/// borrow checker.
fn add_package<'a>(
    claims: &mut Vec<Claim<'a>>,
    db: &Db<'a>,
    i: usize,
    _mark: PhantomData<PackageView<'a>>,
) -> Result<(), AllocError>
    // The index is that of one of the database's packages.
    requires { i < length (packages_of db.now) }
    // On Ok, the claims of this package, as a kept member m, are added at the end.
    ensures { IfOk result (λ _. (m : Member)
        → slice_get (map member_of_kept (packages_of db.now)) i ≡ Some m
        → map claim_seen claims.new.items
        ≡ claims_with_listings (map claim_seen claims.old.items) (listings_of_member i m)) }
{
    // This never happens, by the contract. The contract of `len` says that indexes are below 2^32.
    if i >= db.len() {
        unreachable!();
    }
    let package = db.package(i);
    add_folders(claims, i as u32, &package.paths())
}
