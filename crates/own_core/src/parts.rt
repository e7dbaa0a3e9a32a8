//! `parts_of`, which divides the files of a change: the added files by what is done with them, and
//! the files that are left over by whether they are removed or kept.
//! The rules are in `docs/commands.md`, "What a change does with files": which files are removed
//! (the old database lists them, and no package lists them after the change), and which
//! configuration files are kept.

ghost use Rattle.std.specs.Prelude.{◌≡◌, IfOk, OnOk, false, map, true};
ghost use Rattle.std.specs.List.{filter};
ghost use Rattle.std.specs.List.Sorted.{IsSorted};
ghost use Rattle.path_claim_lists.specs.adb_fields.JoinedPath.{joined_path};
ghost use Rattle.base_core.specs.Listed.{AreSortedDistinctTexts};
ghost use Rattle.base_core.specs.Read.{OnlyReads};
ghost use Rattle.own_core.specs.Fate.{goes_aside, goes_in};
ghost use Rattle.file_owners.specs.db_core.Members.{members_of_kept};
ghost use Rattle.file_owners.specs.db_core.Seen.{members_of, packages_of};
ghost use Rattle.path_claim_lists.specs.path_claims.Claims.{claim_cmp};
ghost use Rattle.path_claim_lists.specs.path_claims.Seen.{claim_seen};
ghost use Rattle.own_core.specs.ClaimEntries.{AreClaimsOf, IsClaimOf};
ghost use Rattle.own_core.specs.Divided.{AreDividedByAnswer, claims_with_one_if};
ghost use Rattle.own_core.specs.Fates.{are_equal_fates, are_equal_flags, claim_fate, fate_seen};
ghost use Rattle.own_core.specs.Found.{IsByFile};
ghost use Rattle.own_core.specs.Going.{is_file_kept, is_apk_new_name_of, is_path_left_over};
ghost use Rattle.own_core.specs.Parts.{AreFilesByFate};
ghost use Rattle.own_core.specs.Sides.{HasClaimsOfPackages, claims_before, file_change_of};

use crate::claim_change::ClaimChange;
use crate::entries::listed_before;
use crate::fate::{AddedFileFate, fate_of, is_present_and_modified_from_entry};
use crate::guarded::{is_protected_path, path_of_apk_new_name};
use base_core::{Tree, TreeFault};
use file_guard::compare_file;
use path_claim_lists::{Claim, FilePath, find_claim, find_next_claim, name_of_path};
use std::alloc::{AllocError, Global};
use std::marker::PhantomData;

/// The claims of the added files that are written.
#[derive(Drop)]
struct AddedFiles<'n> {
    /// Those of the files that are written under their own paths.
    ins: Vec<Claim<'n>>,
    /// Those of the files that are written aside, as `PATH.apk-new` beside the user's file.
    asides: Vec<Claim<'n>>,
}

/// Adds the claim of an added file to the list for its fate. There is none if it is not written.
fn add_by_fate<'n>(
    files: &mut AddedFiles<'n>,
    claim: &Claim<'n>,
    fate: AddedFileFate,
) -> Result<(), AllocError>
    // On Ok, the claim is added to `ins` exactly if the file is written under its path.
    ensures ins { OnOk result (map claim_seen files.new.ins.items
        ≡ claims_with_one_if (are_equal_fates goes_in (fate_seen fate)) (claim_seen claim.now)
        (map claim_seen files.old.ins.items)) }
    // On Ok, the claim is added to `asides` exactly if the file is written aside.
    ensures asides { OnOk result (map claim_seen files.new.asides.items
        ≡ claims_with_one_if (are_equal_fates goes_aside (fate_seen fate)) (claim_seen claim.now)
        (map claim_seen files.old.asides.items)) }
{
    match fate {
        AddedFileFate::GoesIn => {
            files.ins.push(*claim)?;
            Ok(())
        }
        AddedFileFate::GoesAside => {
            files.asides.push(*claim)?;
            Ok(())
        }
        AddedFileFate::GivesWay => Ok(()),
    }
}

/// The claims of the added files that are written, in the order of `coming`, the claims of all
/// added files.
fn added_files<'n, T: Tree>(
    alloc: Global,
    tree: &mut T,
    change: &ClaimChange<'_, '_, '_>,
    coming: &[Claim<'n>],
) -> Result<AddedFiles<'n>, TreeFault>
    // `change` has the claims of the packages before the change (`before`) and after it (`after`).
    requires claims { HasClaimsOfPackages change.now }
    // Each claim is of a file of one of the members after the change.
    requires files { AreClaimsOf (members_of change.now.members.now) (map claim_seen coming.now) }
    // On Ok, the claims are divided by fates, each of which is right for the file under its path,
    // if the tree is observable, and otherwise for some file there.
    ensures files { IfOk result (λ files. AreDividedByAnswer
        (claim_fate (file_change_of change.now)) (are_equal_fates goes_in)
        (are_equal_fates goes_aside) (T.history tree.old)
        (map claim_seen coming.now) (map claim_seen files.ins.items)
        (map claim_seen files.asides.items)) }
    // The tree is only read: no file changes, no I/O error is hidden, and no call is a misuse.
    ensures tree { OnlyReads TreeFault.Disk (T.history tree.old) (T.history tree.new)
        (T.counts tree.old) (T.counts tree.new) result }
{
    let mut files = AddedFiles {
        ins: Vec::new(alloc),
        asides: Vec::new(alloc),
    };
    for claim in coming {
        let fate = fate_of(alloc, tree, change, claim)?;
        add_by_fate(&mut files, claim, fate)?;
    }
    Ok(files)
}

/// Whether a file of a package is written aside under this path: the path is `PATH.apk-new` for the
/// path of one of the claims `asides`.
fn is_apk_new_name_of(asides: &[Claim<'_>], path: &FilePath<'_>) -> bool
    // The claims are in byte order of their paths, for a binary search.
    requires { IsSorted claim_cmp (map claim_seen asides.now) }
    ensures { result ≡ is_apk_new_name_of (map claim_seen asides.now) (joined_path path.now) }
{
    match path_of_apk_new_name(path) {
        Some(beside) => find_claim(asides, &beside).is_some(),
        None => false,
    }
}

/// Whether no package lists the path after the change, and no file is written aside there. `next`
/// is the index at which the search in the claims after the change starts: if paths are tested in
/// byte order, each search starts where the last one ended.
fn is_path_left_over(
    change: &ClaimChange<'_, '_, '_>,
    asides: &[Claim<'_>],
    path: &FilePath<'_>,
    next: &mut usize,
) -> bool
    // `change` has the claims of the packages before the change (`before`) and after it (`after`).
    requires claims { HasClaimsOfPackages change.now }
    // The claims of the files written aside are in byte order of their paths.
    requires sorted { IsSorted claim_cmp (map claim_seen asides.now) }
    // The result says whether the path is left over.
    ensures { result ≡ is_path_left_over (file_change_of change.now) (map claim_seen asides.now)
        (joined_path path.now) }
{
    if find_next_claim(change.after, path, next).is_some() {
        return false;
    }
    !is_apk_new_name_of(asides, path)
}

/// The claims of the packages before the change whose paths no package lists after the change, and
/// at which no file is written aside. `asides` are the claims of the files written aside.
fn left_over_claims<'o>(
    alloc: Global,
    change: &ClaimChange<'_, 'o, '_>,
    asides: &[Claim<'_>],
) -> Result<Vec<Claim<'o>>, AllocError>
    // `change` has the claims of the packages before the change (`before`) and after it (`after`).
    requires claims { HasClaimsOfPackages change.now }
    // The claims of the files written aside are in byte order of their paths.
    requires sorted { IsSorted claim_cmp (map claim_seen asides.now) }
    // On Ok, these are the claims of the packages before the change whose path is left over.
    ensures { IfOk result (λ left. map claim_seen left.items
        ≡ filter (λ c. is_path_left_over (file_change_of change.now) (map claim_seen asides.now)
        c.path)
        (claims_before change.now)) }
{
    let mut left = Vec::new(alloc);
    // Paths are searched in their order, so each search starts where the last one ended.
    let mut next = 0;
    for i in 0..change.before.len() {
        if is_path_left_over(change, asides, &change.before[i].path, &mut next) {
            left.push(change.before[i])?;
        }
    }
    Ok(left)
}

/// Whether the user's file is kept under the path of this claim, which no package lists any more:
/// it is protected configuration, the user changed it, and there is no `--purge`.
fn is_file_kept<T: Tree>(
    alloc: Global,
    tree: &mut T,
    change: &ClaimChange<'_, '_, '_>,
    claim: &Claim<'_>,
) -> Result<bool, TreeFault>
    // The claim is of a file of a package of the old database.
    requires { IsClaimOf (members_of_kept (packages_of change.now.db.now)) (claim_seen claim.now) }
    // On Ok, the answer is right for the file under the path, if the tree is observable, and
    // otherwise for some file there.
    ensures stays { IfOk result (IsByFile (is_file_kept (file_change_of change.now))
        (T.history tree.old) (claim_seen claim.now)) }
    // The tree is only read: no file changes, no I/O error is hidden, and no call is a misuse.
    ensures tree { OnlyReads TreeFault.Disk (T.history tree.old) (T.history tree.new)
        (T.counts tree.old) (T.counts tree.new) result }
{
    // Only protected configuration may be kept, and not with `--purge`; other files are not read.
    if change.purge || !is_protected_path(&claim.path) {
        return Ok(false);
    }
    let name = name_of_path(alloc, &claim.path)?;
    let listed = listed_before(change.db, claim, PhantomData);
    let found = compare_file(tree, &name, None, Some(listed))?;
    Ok(is_present_and_modified_from_entry(found))
}

/// The claims of the files that are left over, listed only before the change.
#[derive(Drop)]
struct LeftOverFiles<'o> {
    /// Those of the files that are removed.
    removed: Vec<Claim<'o>>,
    /// Those of the files that are kept, since they are configuration that the user changed.
    kept: Vec<Claim<'o>>,
}

/// Adds the claim of a file that is left over to the list of the kept or of the removed files.
fn add_left_over<'o>(
    files: &mut LeftOverFiles<'o>,
    claim: &Claim<'o>,
    is_kept: bool,
) -> Result<(), AllocError>
    // On Ok, the claim is added to `removed` exactly if the file is not kept.
    ensures removed { OnOk result (map claim_seen files.new.removed.items
        ≡ claims_with_one_if (are_equal_flags false is_kept) (claim_seen claim.now)
        (map claim_seen files.old.removed.items)) }
    // On Ok, the claim is added to `kept` exactly if the file is kept.
    ensures kept { OnOk result (map claim_seen files.new.kept.items
        ≡ claims_with_one_if (are_equal_flags true is_kept) (claim_seen claim.now)
        (map claim_seen files.old.kept.items)) }
{
    if is_kept {
        files.kept.push(*claim)?;
        return Ok(());
    }
    files.removed.push(*claim)?;
    Ok(())
}

/// The claims `left`, whose paths no package lists any more, divided by whether the user's file is
/// kept.
fn left_over_files<'o, T: Tree>(
    alloc: Global,
    tree: &mut T,
    change: &ClaimChange<'_, '_, '_>,
    left: &[Claim<'o>],
) -> Result<LeftOverFiles<'o>, TreeFault>
    // Each claim is of a file of a package of the old database.
    requires { AreClaimsOf (members_of_kept (packages_of change.now.db.now))
        (map claim_seen left.now) }
    // On Ok, the claims are divided by whether the file is kept. This is right for the file under
    // the claim's path, if the tree is observable, and otherwise for some file there.
    ensures files { IfOk result (λ files. AreDividedByAnswer
        (is_file_kept (file_change_of change.now)) (are_equal_flags false)
        (are_equal_flags true) (T.history tree.old)
        (map claim_seen left.now) (map claim_seen files.removed.items)
        (map claim_seen files.kept.items)) }
    // The tree is only read: no file changes, no I/O error is hidden, and no call is a misuse.
    ensures tree { OnlyReads TreeFault.Disk (T.history tree.old) (T.history tree.new)
        (T.counts tree.old) (T.counts tree.new) result }
{
    let mut files = LeftOverFiles {
        removed: Vec::new(alloc),
        kept: Vec::new(alloc),
    };
    for claim in left {
        let is_kept = is_file_kept(alloc, tree, change, claim)?;
        add_left_over(&mut files, claim, is_kept)?;
    }
    Ok(files)
}

/// The claims of the files of a change, divided by what is done with the files. Each list is in
/// byte order of the paths.
pub struct Parts<'o, 'n> {
    /// The added files that are written under their own paths.
    pub ins: Vec<Claim<'n>>,
    /// The added files that are written aside, as `PATH.apk-new` beside the user's file.
    pub asides: Vec<Claim<'n>>,
    /// The files left over, listed only before the change, that are removed.
    pub removed: Vec<Claim<'o>>,
    /// The files left over that are kept, since they are configuration that the user changed.
    pub kept: Vec<Claim<'o>>,
}

/// Drops the parts in one call, so that a function that gives up has one drop and not many.
impl Drop for Parts<'_, '_> {
    fn drop(self) {
        let Parts {
            ins: _,
            asides: _,
            removed: _,
            kept: _,
        } = self;
    }
}

/// Divides the files of a change: those that added packages own (`coming`) by their fates, and
/// those that are left over by whether the user's file is kept. Only configuration files are read,
/// each once.
pub fn parts_of<'o, 'n, T: Tree>(
    alloc: Global,
    tree: &mut T,
    change: &ClaimChange<'_, 'o, 'n>,
    coming: &[Claim<'n>],
) -> Result<Parts<'o, 'n>, TreeFault>
    // `change` has the claims of the packages before the change (`before`) and after it (`after`).
    requires claims { HasClaimsOfPackages change.now }
    // Each claim of an added file is of a file of one of the members.
    requires files { AreClaimsOf (members_of change.now.members.now) (map claim_seen coming.now) }
    // The paths of the added files are in byte order, each once.
    requires rising { AreSortedDistinctTexts (map (λ c. c.path) (map claim_seen coming.now)) }
    // On Ok, the files are divided by the rules, for the tree's files if they are observable, and
    // otherwise for some files.
    ensures parts { IfOk result
        (AreFilesByFate change.now (T.history tree.old) (map claim_seen coming.now)) }
    // The tree is only read: no file changes, no I/O error is hidden, and no call is a misuse.
    ensures tree { OnlyReads TreeFault.Disk (T.history tree.old) (T.history tree.new)
        (T.counts tree.old) (T.counts tree.new) result }
{
    let added = added_files(alloc, tree, change, coming)?;
    let left = left_over_claims(alloc, change, &added.asides)?;
    let files = left_over_files(alloc, tree, change, &left)?;
    Ok(Parts {
        ins: added.ins,
        asides: added.asides,
        removed: files.removed,
        kept: files.kept,
    })
}
