//! `added_claims`: the added files, as the claims by which added members list paths that they own.
//! The rules are in `docs/commands.md`, "Files that several packages list" (owners) and "What a
//! change does with files" (the change writes each file that an added package owns).

ghost use Rattle.std.specs.Prelude.{◌≡◌, IfOk, map};
ghost use Rattle.std.specs.List.{filter};
ghost use Rattle.std.specs.List.Sorted.{IsSorted};
ghost use Rattle.path_claim_lists.specs.Once.{HasFirstClaimOfEachPath};
ghost use Rattle.file_owners.specs.db_core.Seen.{members_of};
ghost use Rattle.file_owners.specs.Owners.{owner_of_path};
ghost use Rattle.path_claim_lists.specs.path_claims.Claims.{claim_cmp};
ghost use Rattle.path_claim_lists.specs.path_claims.Seen.{claim_seen};
ghost use Rattle.own_core.specs.ClaimEntries.{AreClaimsOf, IsClaimOf, is_added_at, is_of_added_owner};

use file_owners::Members;
use path_claim_lists::{Claim, one_of_each_path};
use std::alloc::{AllocError, Global};

/// Whether the member of the claim is added. Only added members have the id of a package.
pub fn comes(members: &Members<'_>, claim: &Claim<'_>) -> bool
    // The claim is of a file of one of the members.
    requires { IsClaimOf (members_of members.now) (claim_seen claim.now) }
    ensures { result ≡ is_added_at (members_of members.now) claim.now.member }
{
    members.id(claim.member as usize).is_some()
}

/// Whether the claim's member owns the claim's path, and is added. `owner` is the index of the
/// member that owns the path, or None if no member does.
#[tactic(auto, unfolding(crate::specs::ClaimEntries::is_of_added_owner))]
fn is_of_added_owner(members: &Members<'_>, claim: &Claim<'_>, owner: Option<u32>) -> bool
    // The claim is of a file of one of the members.
    requires file { IsClaimOf (members_of members.now) (claim_seen claim.now) }
    // `owner` is the index of the member that owns the path.
    requires owner { owner ≡ owner_of_path (members_of members.now) (claim_seen claim.now).path }
    ensures { result ≡ is_of_added_owner (members_of members.now) (claim_seen claim.now) }
{
    match owner {
        Some(owner) => claim.member == owner && comes(members, claim),
        None => false,
    }
}

/// Of the claims, those whose member owns the path and is added, in the same order. `owners` has,
/// for each claim, the index of the member that owns its path, or None.
fn owned_claims<'n>(
    alloc: Global,
    members: &Members<'n>,
    claims: &[Claim<'n>],
    owners: &[Option<u32>],
) -> Result<Vec<Claim<'n>>, AllocError>
    // Each claim is of a file of one of the members.
    requires files { AreClaimsOf (members_of members.now) (map claim_seen claims.now) }
    // For each claim, `owners` has the index of the member that owns its path, or None.
    requires owners { owners.now
        ≡ map (λ c. owner_of_path (members_of members.now) c.path) (map claim_seen claims.now) }
    // On Ok, these are the claims whose member is added and owns the path.
    ensures { IfOk result (λ owned. map claim_seen owned.items
        ≡ filter (is_of_added_owner (members_of members.now)) (map claim_seen claims.now)) }
{
    let mut owned = Vec::new(alloc);
    for i in 0..claims.len() {
        if is_of_added_owner(members, &claims[i], owners[i]) {
            owned.push(claims[i])?;
        }
    }
    Ok(owned)
}

/// For each path that an added member owns, the first claim by which it lists the path, in the
/// order of paths. `owners` has, for each claim, the index of the member that owns its path, or
/// None.
pub fn added_claims<'n>(
    alloc: Global,
    members: &Members<'n>,
    claims: &[Claim<'n>],
    owners: &[Option<u32>],
) -> Result<Vec<Claim<'n>>, AllocError>
    // Each claim is of a file of one of the members.
    requires files { AreClaimsOf (members_of members.now) (map claim_seen claims.now) }
    // The claims are in byte order of their paths.
    requires sorted { IsSorted claim_cmp (map claim_seen claims.now) }
    // For each claim, `owners` has the index of the member that owns its path, or None.
    requires owners { owners.now
        ≡ map (λ c. owner_of_path (members_of members.now) c.path) (map claim_seen claims.now) }
    // On Ok, of the claims whose member is added and owns the path, these are the first of each
    // path.
    ensures { IfOk result (λ coming. HasFirstClaimOfEachPath
        (filter (is_of_added_owner (members_of members.now)) (map claim_seen claims.now))
        (map claim_seen coming.items)) }
{
    let owned = owned_claims(alloc, members, claims, owners)?;
    one_of_each_path(alloc, owned)
}
