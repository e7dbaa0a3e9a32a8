//! `owners_of`, which finds the owner of each path that members claim, and the first contested
//! path. The rule is in `docs/commands.md`, "Files that several packages list"; it also says which
//! path is reported if no member owns it.

ghost use Rattle.std.specs.Prelude.{◌≡◌, ◌+◌, ◌<◌, ℕ, Bool, Option, Some, true, IfOk, is_none, length, map, option_and_then, option_map, slice_get, ◌==◌, List};
ghost use Rattle.std.specs.List.Sorted.{IsSorted};
ghost use Rattle.base_core.specs.Sorted.{sorted_by};
ghost use Rattle.path_claims.specs.Claims.{AreNumberedByPlace, PathClaim, claim_cmp, path_with_rivals_of_first_claimant, first_contested_path_in_byte_order, is_owning_member, is_claim_of_owner, owner_among};
ghost use Rattle.path_claims.specs.Contest.{IsAsymmetric, are_all_others_beaten_by};
ghost use Rattle.path_claims.specs.Runs.{is_first_of_path};
ghost use Rattle.path_claims.specs.Seen.{claim_seen};
ghost use Rattle.path_claims.specs.ContestedSeen.{contested_seen};
ghost use Rattle.std.specs.List.{find, list_any};

use crate::claim::{Claim, begins_path, run_at, sort_claims};
use crate::contest::{Contest, Rivals, first_with_unbeaten_rival, member_beating_all_others};
use adb_fields::FilePath;
use std::alloc::{AllocError, Global};

/// A contested path, which no member owns, with its rivals.
#[derive(Clone, Copy)]
pub struct Contested<'a> {
    /// The path that no member owns.
    pub path: FilePath<'a>,
    /// The first member that claims the path, and the first other one that this one does not beat.
    pub rivals: Rivals,
}

/// The result of `owners_of`: the claims in byte order of their paths, and the owners of the paths.
#[derive(Drop)]
pub struct Owners<'a> {
    /// The claims in byte order of their paths. Those of the same path are in the order of the
    /// given list of all claims.
    pub claims: Vec<Claim<'a>>,
    /// For each of these claims, the index of the member that owns its path, or None if no member
    /// does.
    pub owners: Vec<Option<u32>>,
    /// For each claim, in the order of the given list of all claims, whether its member owns its
    /// path.
    pub owned: Vec<bool>,
    /// The first path in byte order that no member owns, with its rivals. None if each path has an
    /// owner.
    pub contested: Option<Contested<'a>>,
}

/// The owner of the path of the claim with the index `i`. `before` is the owner of the path of the
/// claim before it.
fn owner_at<C: Contest>(
    contest: &C,
    claims: &[Claim<'_>],
    i: usize,
    before: Option<u32>,
) -> Option<u32>
    // The index is that of one of the claims.
    requires at { i < length claims.now }
    // Of two members, at most one beats the other.
    requires one_way { IsAsymmetric (C.beats contest.now) }
    // The claims are in byte order of their paths.
    requires sorted { IsSorted claim_cmp (map claim_seen claims.now) }
    // `before` is the owner of the path of the claim before this one, if there is such a claim.
    requires before { (j : ℕ) (c : PathClaim) → j + 1 ≡ i
        → slice_get (map claim_seen claims.now) j ≡ Some c
        → before ≡ owner_among (C.beats contest.now) (map claim_seen claims.now) c.path }
    // The result is the index of the member that owns the claim's path, or None.
    ensures { (c : PathClaim) → slice_get (map claim_seen claims.now) i ≡ Some c
        → result ≡ owner_among (C.beats contest.now) (map claim_seen claims.now) c.path }
{
    // Claims of one path are adjacent, so a claim that is not the first of its path has the owner
    // of the claim before it.
    if !begins_path(claims, i) {
        return before;
    }
    member_beating_all_others(contest, run_at(claims, i))
}

/// For each claim, in the same order, the index of the member that owns its path, or None.
fn owners_in_order<C: Contest>(
    alloc: Global,
    contest: &C,
    claims: &[Claim<'_>],
) -> Result<Vec<Option<u32>>, AllocError>
    // Of two members, at most one beats the other.
    requires one_way { IsAsymmetric (C.beats contest.now) }
    // The claims are in byte order of their paths.
    requires sorted { IsSorted claim_cmp (map claim_seen claims.now) }
    // On Ok, the result has the owner of the path of each claim.
    ensures { IfOk result (λ owners. owners.items
        ≡ map (λ c. owner_among (C.beats contest.now) (map claim_seen claims.now) c.path)
        (map claim_seen claims.now)) }
{
    let mut owners = Vec::new(alloc);
    let mut owner = None;
    for i in 0..claims.len() {
        owner = owner_at(contest, claims, i, owner);
        owners.push(owner)?;
    }
    Ok(owners)
}

/// Whether there is an owner, and it is this member.
fn is_owning_member(member: u32, owner: Option<u32>) -> bool
    ensures { result ≡ is_owning_member member owner }
{
    match owner {
        Some(owner) => member == owner,
        None => false,
    }
}

/// Sets, for each claim, the flag at the index that is the claim's number: whether its member owns
/// its path. `owners` has the owner of the path of each claim.
fn mark_owned(flags: &mut [bool], claims: &[Claim<'_>], owners: &[Option<u32>])
    // `owners` has one entry for each claim.
    requires owners { length owners.now ≡ length claims.now }
    // The number of each claim is the index of a flag.
    requires flags { (j : ℕ) (c : PathClaim) → slice_get (map claim_seen claims.now) j ≡ Some c
        → c.number < length flags.old }
    // Claims with the same number get the same flag.
    requires same { (j k : ℕ) (c d : PathClaim) (o p : Option ℕ)
        → slice_get (map claim_seen claims.now) j ≡ Some c → slice_get owners.now j ≡ Some o
        → slice_get (map claim_seen claims.now) k ≡ Some d → slice_get owners.now k ≡ Some p
        → c.number ≡ d.number → is_owning_member c.member o ≡ is_owning_member d.member p }
    // The number of flags does not change.
    ensures len { length flags.new ≡ length flags.old }
    // The flag of each claim says whether its member owns its path.
    ensures marked { (j : ℕ) (c : PathClaim) (o : Option ℕ)
        → slice_get (map claim_seen claims.now) j ≡ Some c → slice_get owners.now j ≡ Some o
        → slice_get flags.new c.number ≡ Some (is_owning_member c.member o) }
{
    for i in 0..claims.len() {
        flags[claims[i].number] = is_owning_member(claims[i].member, owners[i]);
    }
}

/// The path of the claim with the index `i`, with its rivals: the first member that claims the
/// path, and the first other one that it does not beat. None if the first member beats all others.
fn contested_from<'a, C: Contest>(
    contest: &C,
    claims: &[Claim<'a>],
    i: usize,
) -> Option<Contested<'a>>
    // The index is that of one of the claims.
    requires at { i < length claims.now }
    // The claims are in byte order of their paths.
    requires sorted { IsSorted claim_cmp (map claim_seen claims.now) }
    // No earlier claim has the same path.
    requires first { is_first_of_path (map claim_seen claims.now) i ≡ true }
    // The result has the path of this claim, and its rivals.
    ensures { (c : PathClaim) → slice_get (map claim_seen claims.now) i ≡ Some c
        → option_map contested_seen result
        ≡ path_with_rivals_of_first_claimant (C.beats contest.now)
        (map claim_seen claims.now) c.path }
{
    match first_with_unbeaten_rival(contest, run_at(claims, i)) {
        Some(rivals) => Some(Contested {
            path: claims[i].path,
            rivals,
        }),
        None => None,
    }
}

/// The first path in byte order that no member owns, with its rivals. `owners` has the owner of the
/// path of each claim.
fn first_contested<'a, C: Contest>(
    contest: &C,
    claims: &[Claim<'a>],
    owners: &[Option<u32>],
) -> Option<Contested<'a>>
    // The claims are in byte order of their paths.
    requires sorted { IsSorted claim_cmp (map claim_seen claims.now) }
    // `owners` has the owner of each claim's path.
    requires owners { owners.now
        ≡ map (λ c. owner_among (C.beats contest.now) (map claim_seen claims.now) c.path)
        (map claim_seen claims.now) }
    // The result is the first path, in the order of the claims, that has no owner, with its rivals.
    ensures { option_map contested_seen result
        ≡ option_and_then (path_with_rivals_of_first_claimant (C.beats contest.now)
        (map claim_seen claims.now))
        (find
        (λ path. is_none (owner_among (C.beats contest.now) (map claim_seen claims.now) path))
        (map (λ c. c.path) (map claim_seen claims.now))) }
{
    for i in 0..claims.len() {
        if owners[i].is_none() {
            return contested_from(contest, claims, i);
        }
    }
    None
}

/// For each claim, whether its member owns its path; the index of a flag is the number of the
/// claim. `owners` has the owner of the path of each claim.
fn owned_flags(
    alloc: Global,
    claims: &[Claim<'_>],
    owners: &[Option<u32>],
) -> Result<Vec<bool>, AllocError>
    // `owners` has one entry for each claim.
    requires owners { length owners.now ≡ length claims.now }
    // The number of each claim is below the number of claims.
    requires numbers { (j : ℕ) (c : PathClaim) → slice_get (map claim_seen claims.now) j ≡ Some c
        → c.number < length claims.now }
    // Claims with the same number have the same flag.
    requires same { (j k : ℕ) (c d : PathClaim) (o p : Option ℕ)
        → slice_get (map claim_seen claims.now) j ≡ Some c → slice_get owners.now j ≡ Some o
        → slice_get (map claim_seen claims.now) k ≡ Some d → slice_get owners.now k ≡ Some p
        → c.number ≡ d.number → is_owning_member c.member o ≡ is_owning_member d.member p }
    // There are as many flags as claims.
    ensures len { IfOk result (λ flags. length flags.items ≡ length claims.now) }
    // The flag of each claim says whether its member owns its path.
    ensures marked { IfOk result (λ flags. (j : ℕ) (c : PathClaim) (o : Option ℕ)
        → slice_get (map claim_seen claims.now) j ≡ Some c → slice_get owners.now j ≡ Some o
        → slice_get flags.items c.number ≡ Some (is_owning_member c.member o)) }
{
    let mut flags = Vec::new(alloc);
    flags.resize(claims.len(), false)?;
    mark_owned(&mut flags, claims, owners);
    Ok(flags)
}

/// Finds the owners of the paths that members claim, by sorting the claims. The contest is asked at
/// most twice for each claim, and not at all for a path with one claim.
///
/// # Errors
///
/// The program is out of memory.
pub fn owners_of<'a, C: Contest>(
    alloc: Global,
    contest: &C,
    claims: Vec<Claim<'a>>,
) -> Result<Owners<'a>, AllocError>
    // Of two members, at most one beats the other.
    requires one_way { IsAsymmetric (C.beats contest.now) }
    // The number of each claim is its index in the list.
    requires numbered { AreNumberedByPlace (map claim_seen claims.items) }
    // On Ok, `claims` has the claims in byte order of their paths; those of the same path keep
    // their order.
    ensures claims { IfOk result (λ found. map claim_seen found.claims.items
        ≡ sorted_by claim_cmp (map claim_seen claims.entry.items)) }
    // On Ok, `owners` has, for each of these claims, the index of the member that owns its path, or
    // None.
    ensures owners { IfOk result (λ found. found.owners.items
        ≡ map (λ c. owner_among (C.beats contest.now) (map claim_seen claims.entry.items) c.path)
        (map claim_seen found.claims.items)) }
    // On Ok, `owned` says of each claim, in the order of the given list, whether its member owns
    // its path.
    ensures owned { IfOk result (λ found. found.owned.items
        ≡ map (is_claim_of_owner (C.beats contest.now) (map claim_seen claims.entry.items))
        (map claim_seen claims.entry.items)) }
    // On Ok, `contested` is the first path in byte order that no member owns, with its rivals.
    ensures contested { IfOk result (λ found. option_map contested_seen found.contested
        ≡ first_contested_path_in_byte_order (C.beats contest.now)
        (map claim_seen claims.entry.items)) }
{
    let mut claims = claims;
    sort_claims(&mut claims)?;
    let owners = owners_in_order(alloc, contest, &claims)?;
    let owned = owned_flags(alloc, &claims, &owners)?;
    let contested = first_contested(contest, &claims, &owners);
    Ok(Owners {
        claims,
        owners,
        owned,
        contested,
    })
}

/// A law: no path has two owners. If x and y are among the members, and each of them beats every
/// other member, they are the same member.
pub fn a_path_has_one_owner()
    ensures { (beats : ℕ → ℕ → Bool) (members : List ℕ) (x y : ℕ) → IsAsymmetric beats
        → list_any (λ z. x == z) members ≡ true → list_any (λ z. y == z) members ≡ true
        → are_all_others_beaten_by beats members x ≡ true
        → are_all_others_beaten_by beats members y ≡ true → x ≡ y }
{}
