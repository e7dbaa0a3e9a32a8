//! The type of a claim, and claims in byte order of their paths.
//! `docs/commands.md`, "Files that several packages list", says what a claim is: a package claims
//! each file that it lists. `src/owner.rt` needs the order, so that the claims of one path are
//! adjacent.

ghost use Rattle.std.specs.Prelude.{◌≡◌, ◌<◌, Some, IfOk, drop, length, map, slice_get};
ghost use Rattle.adb_fields.specs.JoinedPath.{joined_path};
ghost use Rattle.base_core.specs.Sorted.{sorted_by};
ghost use Rattle.path_claims.specs.Claims.{PathClaim, claim_cmp, is_claim_of_path};
ghost use Rattle.path_claims.specs.Runs.{is_first_of_path, passing_prefix};
ghost use Rattle.path_claims.specs.Seen.{claim_seen};

use adb_fields::FilePath;
use std::alloc::{AllocError, Global};

/// A claim: an entry for a file in a member, that is, in a package installed after a change.
#[derive(Clone, Copy)]
pub struct Claim<'a> {
    /// The path of the file.
    pub path: FilePath<'a>,
    /// The index of the member that lists the file.
    pub member: u32,
    /// The position of the folder in the member's package, counted from 1.
    pub folder: u32,
    /// The position of the file in its folder, counted from 1.
    pub file: u32,
    /// How many claims are before this one in the list of the claims of all members.
    pub number: usize,
}

/// Sorts the claims by their paths, in byte order. Claims of the same path keep their order.
pub fn sort_claims(claims: &mut Vec<Claim<'_>>) -> Result<(), AllocError>
    // On Ok, the claims are sorted, and claims of the same path are in their old order.
    ensures { IfOk result (λ _. map claim_seen claims.new.items
        ≡ sorted_by claim_cmp (map claim_seen claims.old.items)) }
{
    claims.sort_by(|one, other| one.path.compare(&other.path))?;
    Ok(())
}

/// Whether the claim with the index `i` is the first one of its path: it is the first claim of all,
/// or the claim before it has another path.
pub fn begins_path(claims: &[Claim<'_>], i: usize) -> bool
    // The index is that of one of the claims.
    requires { i < length claims.now }
    ensures { result ≡ is_first_of_path (map claim_seen claims.now) i }
{
    if i == 0 {
        return true;
    }
    !claims[i - 1].path.compare(&claims[i].path).is_eq()
}

/// The claims at the beginning of the list that have this path, up to the first one that has
/// another path.
fn run_in_front<'c, 'a>(claims: &'c [Claim<'a>], path: &FilePath<'_>) -> &'c [Claim<'a>]
    // The result is the longest beginning of the list in which each claim has the path.
    ensures { map claim_seen result.now
        ≡ passing_prefix (is_claim_of_path (joined_path path.now)) (map claim_seen claims.now) }
{
    let mut end = 0;
    while end < claims.len() && claims[end].path.compare(path).is_eq() {
        end += 1;
    }
    &claims[..end]
}

/// The claims from the one with the index `from` on that have the same path as it, up to the first
/// one that has another path.
pub fn run_at<'c, 'a>(claims: &'c [Claim<'a>], from: usize) -> &'c [Claim<'a>]
    // The index is that of one of the claims.
    requires { from < length claims.now }
    // If c is the claim at this index, the result is the longest run of claims from it on that have
    // its path.
    ensures { (c : PathClaim) → slice_get (map claim_seen claims.now) from ≡ Some c
        → map claim_seen result.now
        ≡ passing_prefix (is_claim_of_path c.path) (drop from (map claim_seen claims.now)) }
{
    let path = claims[from].path;
    run_in_front(&claims[from..], &path)
}
