//! The names that count as written by a change, and those that it releases, as inputs of
//! `first_clash` of `path_clashes`. That function searches for a name that is a folder of another.
//! The rule is in `docs/commands.md`, "What a change does with files", test 2: which names are
//! present afterwards. The terms *releases* and *counts as written* are in `docs/names.md`, "The
//! installed database and a change of it".

ghost use Rattle.std.specs.Prelude.{◌≡◌, ◌&&◌, ◌||◌, ◌++◌, ◌∷◌, [], not, is_some, IfOk, OnOk, map};
ghost use Rattle.std.specs.List.{filter, find};
ghost use Rattle.std.specs.List.Sorted.{IsSorted};
ghost use Rattle.path_claim_lists.specs.adb_fields.JoinedPath.{joined_path};
ghost use Rattle.own_core.specs.Fate.{apk_new_name};
ghost use Rattle.own_core.specs.FilesAfter.{database_name, world_name};
ghost use Rattle.file_owners.specs.db_core.Seen.{members_of};
ghost use Rattle.base_core.specs.ByteOrder.{bytes_cmp};
ghost use Rattle.base_core.specs.Sorted.{sorted_by};
ghost use Rattle.path_claim_lists.specs.path_claims.Claims.{claim_cmp, is_claim_of_path};
ghost use Rattle.path_claim_lists.specs.path_claims.Seen.{claim_seen};
ghost use Rattle.own_core.specs.ClaimEntries.{AreClaimsOf, is_added_at};
ghost use Rattle.own_core.specs.WritesSeen.{CanHaveApkNewNames};

use crate::coming::comes;
use crate::guarded::name_beside;
use base_core::Names;
use file_owners::Members;
use path_claim_lists::{Claim, FilePath, IsReleased, find_claim, name_of_path};
use root_names::{DATABASE_NAME, WORLD_NAME};
use std::alloc::{AllocError, Global};

/// The name `PATH.apk-new` for the path of each claim, in the same order.
pub(crate) fn names_beside(alloc: Global, asides: &[Claim<'_>]) -> Result<Names, AllocError>
    // Each of these is a name that is not too long.
    requires { CanHaveApkNewNames (map claim_seen asides.now) }
    // On Ok, these are the names, in the order of the claims.
    ensures { IfOk result
        (λ names. names ≡ map (λ c. apk_new_name c.path) (map claim_seen asides.now)) }
{
    let mut names = Names::new(alloc);
    for claim in asides {
        let name = name_of_path(alloc, &claim.path)?;
        names.push(name_beside(alloc, &name)?)?;
    }
    Ok(names)
}

/// Adds to `paths` those that added members list. `claims` are the claims of all members.
fn add_coming<'a>(
    paths: &mut Vec<FilePath<'a>>,
    members: &Members<'_>,
    claims: &[Claim<'a>],
) -> Result<(), AllocError>
    // Each claim is of a file of one of the members.
    requires { AreClaimsOf (members_of members.now) (map claim_seen claims.now) }
    // On Ok, the paths of the claims of added members are added at the end.
    ensures { OnOk result (map joined_path paths.new.items ≡ map joined_path paths.old.items
        ++ map (λ c. c.path) (filter (λ c. is_added_at (members_of members.now) c.member)
        (map claim_seen claims.now))) }
{
    for claim in claims {
        if comes(members, claim) {
            paths.push(claim.path)?;
        }
    }
    Ok(())
}

/// Adds the names to `paths`, each as a path whose folder is empty.
fn add_names<'a>(paths: &mut Vec<FilePath<'a>>, names: &'a Names) -> Result<(), AllocError>
    // On Ok, the names are added at the end.
    ensures { OnOk result
        (map joined_path paths.new.items ≡ map joined_path paths.old.items ++ names.now) }
{
    for i in 0..names.len() {
        paths.push(FilePath {
            folder: &[],
            name: names.get(i).as_bytes(),
        })?;
    }
    Ok(())
}

/// Sorts the paths in byte order.
fn sort_paths(paths: &mut Vec<FilePath<'_>>) -> Result<(), AllocError>
    // On Ok, the same paths are in byte order.
    ensures { OnOk result (map joined_path paths.new.items
        ≡ sorted_by bytes_cmp (map joined_path paths.old.items)) }
{
    paths.sort_by(|one, other| one.compare(other))?;
    Ok(())
}

/// The names that count as written, in byte order: those of the database and of world, the paths
/// that added members list by their claims, and the names `besides` of the `.apk-new` files.
pub(crate) fn written_paths<'a>(
    alloc: Global,
    members: &Members<'_>,
    claims: &[Claim<'a>],
    besides: &'a Names,
) -> Result<Vec<FilePath<'a>>, AllocError>
    // Each claim is of a file of one of the members.
    requires { AreClaimsOf (members_of members.now) (map claim_seen claims.now) }
    // On Ok, these are all these names in byte order; a name may be repeated.
    ensures { IfOk result (λ paths. map joined_path paths.items ≡ sorted_by bytes_cmp
        (database_name ∷ world_name ∷ [] ++ map (λ c. c.path)
        (filter (λ c. is_added_at (members_of members.now) c.member) (map claim_seen claims.now))
        ++ besides.now)) }
{
    let mut paths = Vec::new(alloc);
    paths.push(FilePath {
        folder: &[],
        name: DATABASE_NAME,
    })?;
    paths.push(FilePath {
        folder: &[],
        name: WORLD_NAME,
    })?;
    add_coming(&mut paths, members, claims)?;
    add_names(&mut paths, besides)?;
    sort_paths(&mut paths)?;
    Ok(paths)
}

/// The paths that a change releases: a package listed them before, no package lists them after the
/// change, and no modified file of the user is kept there.
#[derive(Clone, Copy)]
pub(crate) struct ReleasedPaths<'c, 'o, 'n> {
    /// The claims of the packages before the change, one for each path.
    pub(crate) before: &'c [Claim<'o>],
    /// The claims of the packages after the change.
    pub(crate) after: &'c [Claim<'n>],
    /// The claims of files left over that are kept, since the user changed them.
    pub(crate) kept: &'c [Claim<'o>],
    // All three lists are in byte order of the paths, for a binary search.
    ghost before_sorted: { IsSorted claim_cmp (map claim_seen before.now) },
    ghost after_sorted: { IsSorted claim_cmp (map claim_seen after.now) },
    ghost kept_sorted: { IsSorted claim_cmp (map claim_seen kept.now) },
}

impl<'c, 'o, 'n> IsReleased for ReleasedPaths<'c, 'o, 'n> {
    // Whether a name is released: a claim before has it, and no claim after or kept has it.
    ghost does_release = { λ paths name.
        is_some (find (is_claim_of_path name) (map claim_seen paths.before.now))
        && not (is_some (find (is_claim_of_path name) (map claim_seen paths.after.now))
        || is_some (find (is_claim_of_path name) (map claim_seen paths.kept.now))) };

    /// Whether the old database lists the path, no package lists it after the change, and no
    /// modified file of the user is kept there.
    fn does_release(&self, name: &[u8]) -> bool {
        let path = FilePath { folder: &[], name };
        if find_claim(self.before, &path).is_none() || find_claim(self.after, &path).is_some() {
            return false;
        }
        find_claim(self.kept, &path).is_none()
    }
}
