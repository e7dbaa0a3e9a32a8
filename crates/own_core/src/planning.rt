//! `plan`, which computes the plan of files of a change, and the type of a plan.
//! The rules are in `docs/commands.md`, "What a change does with files": the tests, in their order,
//! and then what is written, removed, written aside and kept.

ghost use Rattle.std.specs.Prelude.{◌≡◌, ◌<◌, All, IfErr, IfOk, None, Some, length, map, option_map};
ghost use Rattle.std.specs.List.{filter};
ghost use Rattle.base_core.specs.Calls.{IfObservable};
ghost use Rattle.base_core.specs.Name.{IsName};
ghost use Rattle.base_core.specs.Read.{OnlyReads};
ghost use Rattle.base_core.specs.Tree.{files_of};
ghost use Rattle.own_core.specs.NamesAfter.{name_change};
ghost use Rattle.own_core.specs.PlanLists.{first_reserved_added_path_in_byte_order};
ghost use Rattle.path_claim_lists.specs.Named.{HaveValidPaths};
ghost use Rattle.path_claim_lists.specs.Once.{HasFirstClaimOfEachPath};
ghost use Rattle.file_owners.specs.db_core.Members.{listings_of_members};
ghost use Rattle.file_owners.specs.db_core.Seen.{members_of};
ghost use Rattle.file_owners.specs.Owners.{claims_in, first_contested_member_path_in_byte_order, owned_flags_of};
ghost use Rattle.base_core.specs.Sorted.{sorted_by};
ghost use Rattle.path_claim_lists.specs.path_claims.Claims.{claim_cmp};
ghost use Rattle.path_claim_lists.specs.path_claims.ContestedSeen.{contested_seen};
ghost use Rattle.path_claim_lists.specs.path_claims.Seen.{claim_seen};
ghost use Rattle.path_claim_lists.specs.path_clashes.ClashSeen.{clash_seen};
ghost use Rattle.path_claim_lists.specs.path_clashes.FirstClash.{IsFirstClashOrNone, IsFirstClashOverSomeFiles};
ghost use Rattle.own_core.specs.ClaimEntries.{AreClaimsOf, IsClaimOf, is_of_added_owner, is_added_and_reserved};
ghost use Rattle.own_core.specs.ListsSeen.{AreListsOfParts};
ghost use Rattle.own_core.specs.Parts.{AreFilesByFate, apk_new_claims_of, kept_claims_of, removed_claims_of, written_claims_of};
ghost use Rattle.own_core.specs.NamesChanged.{name_change_of_parts};
ghost use Rattle.own_core.specs.Planned.{HasDisjointUnreservedNames, HasSources, IsContestedPathFaultWithRivals, IsPlanForMembersAlone, IsPlanOverSomeFiles, IsRefusalForMembersAlone, IsRefusalOverFiles, MayBeRefusalOf, file_change_between, member_name_at};
ghost use Rattle.own_core.specs.Sides.{HasClaimsOfPackages, claims_after, file_change_of};
ghost use Rattle.own_core.specs.WritesSeen.{CanHaveApkNewNames};

use crate::claim_change::ClaimChange;
use crate::clashes::{ReleasedPaths, names_beside, written_paths};
use crate::coming::{added_claims, comes};
use crate::fault::PlanFault;
use crate::parts::{Parts, parts_of};
use crate::writes::{Writes, writes_of};
use base_core::{Name, Names, Text, Tree, TreeFault};
use file_guard::is_reserved_file;
use file_owners::{Contested, Db, Members, Owned, claims_in_database, owners_of_files};
use path_claim_lists::{
    Claim, Clash, first_clash, name_of_path, names_of_claims, one_of_each_path,
};
use std::alloc::{AllocError, Global};

/// The plan of a change: which files it removes, writes, writes aside and keeps, and who owns what.
pub struct FilePlan {
    /// The names that are removed, in byte order.
    pub(crate) removals: Names,
    /// The files of packages that are written, in byte order of their names.
    pub(crate) writes: Writes,
    /// For each file that packages list after the change, whether its package owns it.
    pub(crate) owned: Owned,
    /// The paths of the user's files beside which a file `PATH.apk-new` is written, in byte order.
    pub(crate) aside: Names,
    /// The paths of the user's files that are kept although no package lists them after the change,
    /// in byte order.
    pub(crate) kept: Names,
}

/// Drops the parts in one call, so that a function that gives up has one drop and not many.
impl Drop for FilePlan {
    fn drop(self) {
        let FilePlan {
            removals: _,
            writes: _,
            owned: _,
            aside: _,
            kept: _,
        } = self;
    }
}

impl FilePlan {
    /// The names that are removed, in byte order; one of them may have no file in the tree.
    pub fn removals(&self) -> &Names
        ensures { result.now ≡ self.now.removals }
    {
        &self.removals
    }

    /// The files of packages that are written. The database and world are not among them.
    pub fn writes(&self) -> &Writes
        ensures { result.now ≡ self.now.writes }
    {
        &self.writes
    }

    /// For each file that packages list after the change, in the order of packages, folders and
    /// files, whether its package owns it.
    pub fn owned(&self) -> &Owned
        ensures { result.now ≡ self.now.owned }
    {
        &self.owned
    }

    /// The paths of the user's files beside which a file `PATH.apk-new` is written, in byte order.
    pub fn aside(&self) -> &Names
        ensures { result.now ≡ self.now.aside }
    {
        &self.aside
    }

    /// The paths of the user's files that are kept although no package lists them after the change,
    /// in byte order.
    pub fn kept(&self) -> &Names
        ensures { result.now ≡ self.now.kept }
    {
        &self.kept
    }
}

/// The first clash of the change, if there is one: two names after the change of which one would be
/// a folder of the other. `coming` are the claims of the files that added packages own.
fn clash_of<T: Tree>(
    alloc: Global,
    tree: &mut T,
    change: &ClaimChange<'_, '_, '_>,
    parts: &Parts<'_, '_>,
    coming: &[Claim<'_>],
) -> Result<Option<Clash>, TreeFault>
    // `change` has the claims of the packages before the change (`before`) and after it (`after`).
    requires claims { HasClaimsOfPackages change.now }
    // Each claim of an added file is of a file of one of the members.
    requires files { AreClaimsOf (members_of change.now.members.now) (map claim_seen coming.now) }
    // `coming` has, for each path with an added owner, the first claim by which this owner lists
    // it.
    requires firsts { HasFirstClaimOfEachPath
        (filter (is_of_added_owner (members_of change.now.members.now)) (claims_after change.now))
        (map claim_seen coming.now) }
    // `parts` has the files of the change, divided by what is done with them.
    requires parts { AreFilesByFate change.now (T.history tree.old) (map claim_seen coming.now)
        parts.now }
    // If the tree's files are observable, the answer is the first clash.
    ensures clash { IfOk result (λ found. IfObservable (T.history tree.old) (λ v. IsFirstClashOrNone
        (name_change (file_change_of change.now) (files_of v)) (files_of v)
        (option_map clash_seen found))) }
    // Over any tree, even one that is not observable, the answer is the first clash for some files.
    ensures may { IfOk result (λ found.
        IsFirstClashOverSomeFiles (name_change_of_parts change.now parts.now)
        (option_map clash_seen found)) }
    // The tree is only read: no file changes, no I/O error is hidden, and no call is a misuse.
    ensures tree { OnlyReads TreeFault.Disk (T.history tree.old) (T.history tree.new)
        (T.counts tree.old) (T.counts tree.new) result }
{
    let besides = names_beside(alloc, &parts.asides)?;
    let written = written_paths(alloc, change.members, change.after, &besides)?;
    let let_go = ReleasedPaths {
        before: change.before,
        after: change.after,
        kept: &parts.kept,
    };
    first_clash(alloc, tree, &written, &let_go)
}

/// Whether the claim is that of an added member, and its path is reserved.
fn is_added_and_reserved(members: &Members<'_>, claim: &Claim<'_>) -> bool
    // The claim is of a file of one of the members.
    requires { IsClaimOf (members_of members.now) (claim_seen claim.now) }
    ensures { result ≡ is_added_and_reserved (members_of members.now) (claim_seen claim.now) }
{
    is_reserved_file(claim.path.folder, claim.path.name) && comes(members, claim)
}

/// The first reserved path in byte order that an added package lists. `claims` are those of all
/// members.
fn first_reserved_added_path_in_byte_order(
    alloc: Global,
    members: &Members<'_>,
    claims: &[Claim<'_>],
) -> Result<Option<Name>, AllocError>
    // Each claim is of a file of one of the members.
    requires files { AreClaimsOf (members_of members.now) (map claim_seen claims.now) }
    // The claims are those of all files that the members list, in byte order of their paths.
    requires sorted { map claim_seen claims.now
        ≡ sorted_by claim_cmp (claims_in (members_of members.now)) }
    ensures { IfOk result (λ found. found
        ≡ first_reserved_added_path_in_byte_order (members_of members.now)) }
{
    for claim in claims {
        if is_added_and_reserved(members, claim) {
            let name = name_of_path(alloc, &claim.path)?;
            return Ok(Some(name));
        }
    }
    Ok(None)
}

/// The package name of the member with this index.
fn member_name_at(alloc: Global, members: &Members<'_>, place: u32) -> Result<Text, AllocError>
    // The index is that of one of the members.
    requires { place < length (members_of members.now) }
    ensures { IfOk result (λ name. member_name_at (members_of members.now) place ≡ Some name) }
{
    let view = members.view(place as usize);
    Text::of(alloc, view.info().name())
}

/// The refusal of a change with a contested path. It has the path and the names of the two rivals.
fn contest(
    alloc: Global,
    members: &Members<'_>,
    contested: &Contested<'_>,
) -> Result<PlanFault, AllocError>
    // The path is the first one in byte order that no member owns.
    requires contested { first_contested_member_path_in_byte_order (members_of members.now)
        ≡ Some (contested_seen contested.now) }
    // Each path that the members list is a name of the tree.
    requires named { All (λ l. IsName l.path) (listings_of_members (members_of members.now)) }
    // On Ok, the fault is `Owned`, with the first contested path and the names of its rivals.
    ensures { IfOk result (IsContestedPathFaultWithRivals (members_of members.now)) }
{
    let path = name_of_path(alloc, &contested.path)?;
    let first = member_name_at(alloc, members, contested.rivals.first)?;
    let second = member_name_at(alloc, members, contested.rivals.second)?;
    Ok(PlanFault::Owned {
        path,
        first,
        second,
    })
}

/// The plan of a change that is not refused. Its lists are those of `parts`. `owned` says for each
/// listed file whether its package owns it.
fn lists_of(alloc: Global, parts: &Parts<'_, '_>, owned: Vec<bool>) -> Result<FilePlan, AllocError>
    // The paths of the removed files are names.
    requires removed { HaveValidPaths (removed_claims_of parts.now) }
    // The paths of the kept files are names.
    requires kept { HaveValidPaths (kept_claims_of parts.now) }
    // The paths of the files that are written under their own paths are names.
    requires ins { HaveValidPaths (written_claims_of parts.now) }
    // The paths of the files that are written aside are names, and so are these with `.apk-new`.
    requires asides { CanHaveApkNewNames (apk_new_claims_of parts.now) }
    // On Ok, the plan has these lists and flags.
    ensures { IfOk result (AreListsOfParts parts.now owned.items) }
{
    let removals = names_of_claims(alloc, &parts.removed)?;
    let kept = names_of_claims(alloc, &parts.kept)?;
    let aside = names_of_claims(alloc, &parts.asides)?;
    let writes = writes_of(alloc, &parts.ins, &parts.asides)?;
    Ok(FilePlan {
        removals,
        writes,
        owned: Owned::of(owned),
        aside,
        kept,
    })
}

/// The plan of a change in which no added package lists a reserved path. The change is refused if
/// names clash, and otherwise if a path is contested. `coming` are the claims of the files that
/// added packages own, `contested` is the first contested path, and `owned` says for each listed
/// file whether its package owns it.
fn plan_of_claims<T: Tree>(
    alloc: Global,
    tree: &mut T,
    change: &ClaimChange<'_, '_, '_>,
    coming: &[Claim<'_>],
    contested: &Option<Contested<'_>>,
    owned: Vec<bool>,
) -> Result<FilePlan, PlanFault>
    // `change` has the claims of the packages before the change (`before`) and after it (`after`).
    requires claims { HasClaimsOfPackages change.now }
    // `coming` has, for each path with an added owner, the first claim by which this owner lists
    // it.
    requires firsts { HasFirstClaimOfEachPath
        (filter (is_of_added_owner (members_of change.now.members.now)) (claims_after change.now))
        (map claim_seen coming.now) }
    // `contested` is the first path in byte order that no member owns, with its rivals.
    requires contested { option_map contested_seen contested.now
        ≡ first_contested_member_path_in_byte_order (members_of change.now.members.now) }
    // The flags are those of all files that the members list, in their order.
    requires owned { owned.items ≡ owned_flags_of (members_of change.now.members.now) }
    // Test 1 was passed: no added package lists a reserved path.
    requires unreserved { first_reserved_added_path_in_byte_order
        (members_of change.now.members.now) ≡ None }
    // Each path that the members list is a name of the tree.
    requires named { All (λ l. IsName l.path)
        (listings_of_members (members_of change.now.members.now)) }
    // On Ok, the lists of the plan are those of the change over the tree's files if they are
    // observable, and otherwise over some files.
    ensures plan { IfOk result (IsPlanOverSomeFiles (file_change_of change.now)
        (T.history tree.old)) }
    // On Ok, the flags are right, and no path is reserved or contested.
    ensures lists { IfOk result (IsPlanForMembersAlone (members_of change.now.members.now)) }
    // If the tree's files are observable: a reported clash is the first one, and a contested path
    // is reported only if there is no clash.
    ensures refusal { IfErr result (λ fault. IfObservable (T.history tree.old) (λ v.
        IsRefusalOverFiles (file_change_of change.now) (files_of v) fault)) }
    // Over any tree: the same for some files.
    ensures may { IfErr result
        (MayBeRefusalOf (file_change_of change.now) (T.history tree.old)) }
    // A reported contested path is the first one, and has its rivals.
    ensures cause { IfErr result (IsRefusalForMembersAlone (members_of change.now.members.now)) }
    // The tree is only read: no file changes, no I/O error is hidden, and no call is a misuse.
    ensures tree { OnlyReads PlanFault.Disk (T.history tree.old) (T.history tree.new)
        (T.counts tree.old) (T.counts tree.new) result }
{
    let parts = parts_of(alloc, tree, change, coming)?;
    let clash = clash_of(alloc, tree, change, &parts, coming)?;
    if let Some(clash) = clash {
        let Clash { path, other } = clash;
        return Err(PlanFault::PathClash { path, other });
    }
    if let Some(contested) = contested {
        let fault = contest(alloc, change.members, contested)?;
        return Err(fault);
    }
    let plan = lists_of(alloc, &parts, owned)?;
    Ok(plan)
}

/// Plans the files of a change of packages: which names are removed, which get the contents of
/// which files, and which configuration is kept as the user made it. With `purge`, configuration
/// that the user changed is removed with its package. The call only reads the tree: the
/// configuration files of added and removed packages, and the names near those that are written.
///
/// # Errors
///
/// The first that applies of: `Reserved`, before any read of the tree; `PathClash`; `Owned`. `Disk`
/// if a call on the tree failed, `Memory` if the program is out of memory.
pub fn plan<'c, T: Tree>(
    alloc: Global,
    old: &'c Db<'_>,
    after: &'c Members<'_>,
    tree: &mut T,
    purge: bool,
) -> Result<FilePlan, PlanFault>
    // On Ok, the lists of the plan are those of the change over the tree's files if they are
    // observable, and otherwise over some files.
    ensures plan { IfOk result
        (IsPlanOverSomeFiles (file_change_between old.now after.now purge) (T.history tree.old)) }
    // On Ok, the removed and the written names are not reserved, and no name is both.
    ensures names { IfOk result HasDisjointUnreservedNames }
    // On Ok, each write has the contents of a file of an added package.
    ensures sources { IfOk result (HasSources (members_of after.now)) }
    // On Ok, the plan says of each listed file whether its package owns it, no added package lists
    // a reserved path, and no path is contested.
    ensures lists { IfOk result (IsPlanForMembersAlone (members_of after.now)) }
    // If the tree's files are observable: a reported clash is the first one, and a contested path
    // is reported only if there is no clash.
    ensures refusal { IfErr result (λ fault. IfObservable (T.history tree.old) (λ v.
        IsRefusalOverFiles (file_change_between old.now after.now purge) (files_of v) fault)) }
    // Over any tree, even one that is not observable: the same for some files.
    ensures may { IfErr result
        (MayBeRefusalOf (file_change_between old.now after.now purge) (T.history tree.old)) }
    // A reported reserved path is the first one. Every other fault, except `Memory`, is reported
    // only if there is none. A reported contested path is the first one, with its rivals.
    ensures cause { IfErr result (IsRefusalForMembersAlone (members_of after.now)) }
    // The tree is only read: no file changes, no I/O error is hidden, and no call is a misuse.
    ensures tree { OnlyReads PlanFault.Disk (T.history tree.old) (T.history tree.new)
        (T.counts tree.old) (T.counts tree.new) result }
{
    // Laws that the proof needs; they compute nothing.
    old.listed_paths_are_names();
    old.no_listed_path_is_reserved();
    after.listed_paths_are_names();
    // Test 1: no added package may list a reserved path.
    let found = owners_of_files(alloc, after)?;
    let owned = found.owned;
    let contested = found.contested;
    let reserved = first_reserved_added_path_in_byte_order(alloc, after, &found.claims)?;
    if let Some(path) = reserved {
        return Err(PlanFault::Reserved { path });
    }
    // Tests 2 and 3, on clashes and contested paths, are in `plan_of_claims`.
    let listed = claims_in_database(alloc, old)?;
    let before = one_of_each_path(alloc, listed)?;
    let change = ClaimChange {
        db: old,
        members: after,
        before: &before,
        after: &found.claims,
        purge,
    };
    let coming = added_claims(alloc, after, &found.claims, &found.owners)?;
    plan_of_claims(alloc, tree, &change, &coming, &contested, owned)
}
