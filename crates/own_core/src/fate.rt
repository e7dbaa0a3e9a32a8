//! `fate_of`, which decides what is done with a file that an added package owns; `added_files` of
//! `src/parts.rt` calls it.
//! The rule is in `docs/commands.md`, "What a change does with files", what is said there of
//! configuration files: when such a file counts as changed, and where the new file is then written.

ghost use Rattle.std.specs.Prelude.{◌≡◌, ◌↔◌, Option, true, false, IfOk, IsTrue, IsSomeAnd};
ghost use Rattle.path_claim_lists.specs.adb_fields.JoinedPath.{joined_path};
ghost use Rattle.adb_view.specs.Plain.{Plain};
ghost use Rattle.base_core.specs.Read.{OnlyReads};
ghost use Rattle.own_core.specs.Fate.{agrees_with_old_entry, fate_if_user_modified_file, is_protected_path};
ghost use Rattle.own_core.specs.FileChange.{old_file_entry};
ghost use Rattle.file_owners.specs.db_core.Seen.{members_of};
ghost use Rattle.file_guard.specs.Listed.{DescribesEntry};
ghost use Rattle.path_claim_lists.specs.path_claims.Seen.{claim_seen};
ghost use Rattle.own_core.specs.ClaimEntries.{IsClaimOf};
ghost use Rattle.own_core.specs.Fates.{DescribesEntryIfAny, claim_fate, fate_seen, is_apk_new_name_free};
ghost use Rattle.own_core.specs.Found.{IsByFile};
ghost use Rattle.own_core.specs.Sides.{HasClaimsOfPackages, file_change_of};

use crate::claim_change::ClaimChange;
use crate::entries::{listed_after, listed_before};
use crate::guarded::{LONGEST_NAME, aside_bytes, is_protected_path};
use base_core::{Name, Tree, TreeFault};
use file_guard::{Comparison, ListedFile, compare_file};
use path_claim_lists::{Claim, FilePath, find_claim, name_of_path};
use std::alloc::{AllocError, Global};
use std::marker::PhantomData;

/// What is done with a file that an added package owns, and with the user's file under its path.
#[derive(Clone, Copy)]
pub(crate) enum AddedFileFate {
    /// The package's file is written under its path.
    GoesIn,
    /// The user's file is kept, and the package's file is not written.
    GivesWay,
    /// The user's file is kept, and the package's file is written beside it as `PATH.apk-new`.
    GoesAside,
}

/// The entry that the old database has for the path, if one of its packages lists the path.
fn listed_so_far<'o>(
    change: &ClaimChange<'_, 'o, '_>,
    path: &FilePath<'_>,
) -> Option<ListedFile<'o>>
    // `change` has the claims of the packages before the change (`before`) and after it (`after`).
    requires { HasClaimsOfPackages change.now }
    // The result describes the old entry, or both are absent.
    ensures { DescribesEntryIfAny result (old_file_entry (file_change_of change.now)
        (joined_path path.now)) }
{
    match find_claim(change.before, path) {
        Some(i) => Some(listed_before(change.db, &change.before[i], PhantomData)),
        None => None,
    }
}

/// Whether a file can be written as `NAME.apk-new`: this is short enough for a name, and no package
/// lists it after the change.
fn is_apk_new_name_free(
    alloc: Global,
    change: &ClaimChange<'_, '_, '_>,
    name: &Name,
) -> Result<bool, AllocError>
    // `change` has the claims of the packages before the change (`before`) and after it (`after`).
    requires { HasClaimsOfPackages change.now }
    // On Ok, the result says whether `NAME.apk-new` is free.
    ensures { IfOk result (λ free. free
        ≡ is_apk_new_name_free (file_change_of change.now) name.now) }
{
    let bytes = aside_bytes(alloc, name.as_bytes())?;
    if bytes.len() > LONGEST_NAME {
        return Ok(false);
    }
    let beside = FilePath {
        folder: &[],
        name: &bytes,
    };
    Ok(find_claim(change.after, &beside).is_none())
}

/// Whether there is an old entry, and the new entry describes the same bytes: the package's file
/// has not changed.
fn agrees_with_old_entry(new: &ListedFile<'_>, old: &Option<ListedFile<'_>>) -> bool
    // The result is right for the entries that `new` and `old` describe.
    ensures { (entry : Plain) (before : Option Plain) → DescribesEntry new.now entry
        → DescribesEntryIfAny old.now before → result ≡ agrees_with_old_entry before entry }
{
    match old {
        Some(old) => old.agrees(new),
        None => false,
    }
}

/// What is done with an added file if the user changed the file under its path, which is `name`. It
/// is not written if its entry `new` agrees with the old entry `old`, or if `NAME.apk-new` is not
/// free. Otherwise it is written aside, as `NAME.apk-new`.
fn fate_if_user_modified_file(
    alloc: Global,
    change: &ClaimChange<'_, '_, '_>,
    name: &Name,
    new: &ListedFile<'_>,
    old: &Option<ListedFile<'_>>,
) -> Result<AddedFileFate, AllocError>
    // `change` has the claims of the packages before the change (`before`) and after it (`after`).
    requires claims { HasClaimsOfPackages change.now }
    // `old` is the entry that the old database has for the name, if there is one.
    requires old { DescribesEntryIfAny old.now (old_file_entry
        (file_change_of change.now) name.now) }
    // On Ok, the fate is right for the entry that `new` describes.
    ensures { IfOk result (λ fate. (entry : Plain) → DescribesEntry new.now entry
        → fate_seen fate ≡ fate_if_user_modified_file (file_change_of change.now) name.now entry) }
{
    if agrees_with_old_entry(new, old) || !is_apk_new_name_free(alloc, change, name)? {
        return Ok(AddedFileFate::GivesWay);
    }
    Ok(AddedFileFate::GoesAside)
}

/// Whether there is a file, and its bytes agree neither with the new entry nor with the old one.
/// `found` is the result of the comparison with both entries, or None if there is no file.
pub(crate) fn is_present_and_modified_from_entry(found: Option<Comparison>) -> bool
    ensures { IsTrue result ↔ IsSomeAnd found (λ c. (c.as_new ≡ false) × (c.as_old ≡ false)) }
{
    match found {
        Some(comparison) => !comparison.as_new && !comparison.as_old,
        None => false,
    }
}

/// What is done with an added configuration file, by its claim. The user's file under its path is
/// read, and compared with the new entry and the old one.
fn guarded_fate<T: Tree>(
    alloc: Global,
    tree: &mut T,
    change: &ClaimChange<'_, '_, '_>,
    claim: &Claim<'_>,
) -> Result<AddedFileFate, TreeFault>
    // `change` has the claims of the packages before the change (`before`) and after it (`after`).
    requires claims { HasClaimsOfPackages change.now }
    // The claim is of a file of one of the members after the change.
    requires file { IsClaimOf (members_of change.now.members.now) (claim_seen claim.now) }
    // The path is that of a protected configuration file.
    requires guarded { is_protected_path (claim_seen claim.now).path ≡ true }
    // On Ok, the fate is right for the file under the path, if the tree is observable, and
    // otherwise for some file there.
    ensures fate { IfOk result (λ fate. IsByFile (claim_fate (file_change_of change.now))
        (T.history tree.old) (claim_seen claim.now) (fate_seen fate)) }
    // The tree is only read: no file changes, no I/O error is hidden, and no call is a misuse.
    ensures tree { OnlyReads TreeFault.Disk (T.history tree.old) (T.history tree.new)
        (T.counts tree.old) (T.counts tree.new) result }
{
    let name = name_of_path(alloc, &claim.path)?;
    let new = listed_after(change.members, claim);
    let old = listed_so_far(change, &claim.path);
    let found = compare_file(tree, &name, Some(new), old)?;
    // The user changed the file, so it is kept.
    if is_present_and_modified_from_entry(found) {
        let fate = fate_if_user_modified_file(alloc, change, &name, &new, &old)?;
        return Ok(fate);
    }
    Ok(AddedFileFate::GoesIn)
}

/// What is done with an added file, by its claim. A file that is not below `etc` is written under
/// its path; then the tree is not read.
pub(crate) fn fate_of<T: Tree>(
    alloc: Global,
    tree: &mut T,
    change: &ClaimChange<'_, '_, '_>,
    claim: &Claim<'_>,
) -> Result<AddedFileFate, TreeFault>
    // `change` has the claims of the packages before the change (`before`) and after it (`after`).
    requires claims { HasClaimsOfPackages change.now }
    // The claim is of a file of one of the members after the change.
    requires file { IsClaimOf (members_of change.now.members.now) (claim_seen claim.now) }
    // On Ok, the fate is right for the file under the path, if the tree is observable, and
    // otherwise for some file there.
    ensures fate { IfOk result (λ fate. IsByFile (claim_fate (file_change_of change.now))
        (T.history tree.old) (claim_seen claim.now) (fate_seen fate)) }
    // The tree is only read: no file changes, no I/O error is hidden, and no call is a misuse.
    ensures tree { OnlyReads TreeFault.Disk (T.history tree.old) (T.history tree.new)
        (T.counts tree.old) (T.counts tree.new) result }
{
    if is_protected_path(&claim.path) {
        return guarded_fate(alloc, tree, change, claim);
    }
    Ok(AddedFileFate::GoesIn)
}
