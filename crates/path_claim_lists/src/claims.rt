//! Operations on claims in byte order of their paths: the search for the first claim of a path, the
//! first claim of each path, and the paths as names of a tree.
//! `docs/commands.md`, "Files that several packages list", says what a claim is; "Words" there,
//! which bytes are a name. These calls are general operations on sorted claims: their contracts are
//! their whole specification.

ghost use Rattle.std.specs.Prelude.{◌≡◌, ◌<◌, ◌≤◌, true, false, length, map, option_and_then, slice_get, IfSome, IfOk, IsOk};
ghost use Rattle.std.specs.List.{find};
ghost use Rattle.std.specs.List.Sorted.{IsPartitionPoint, IsSorted};
ghost use Rattle.base_core.specs.ByteOrder.{precedes};
ghost use Rattle.path_claims.specs.adb_fields.JoinedPath.{joined_path};
ghost use Rattle.path_claims.specs.Claims.{claim_cmp, is_claim_of_path};
ghost use Rattle.path_claims.specs.Seen.{claim_seen};
ghost use Rattle.path_claim_lists.specs.Once.{HasFirstClaimOfEachPath};
ghost use Rattle.base_core.specs.Name.{IsName};
ghost use Rattle.path_claim_lists.specs.Named.{HaveValidPaths};

use base_core::{Name, Names};
use path_claims::{Claim, FilePath, begins_path};
use path_clashes::path_bytes;
use std::alloc::{AllocError, Global};

/// The index of the first claim that has the path, by a binary search in the claims. None is
/// returned exactly if no claim has the path.
pub fn find_claim(claims: &[Claim<'_>], path: &FilePath<'_>) -> Option<usize>
    // The claims are in byte order of their paths.
    requires { IsSorted claim_cmp (map claim_seen claims.now) }
    // If an index is returned, it is that of one of the claims.
    ensures within { IfSome result (λ i. i < length claims.now) }
    // The claim with the returned index is the first one that has the path. None is returned if no
    // claim has it.
    ensures found { option_and_then (slice_get (map claim_seen claims.now)) result
        ≡ find (is_claim_of_path (joined_path path.now)) (map claim_seen claims.now) }
{
    let at = place_of(claims, path);
    claim_at(claims, path, at)
}

/// The index of the first claim that has the path, as `find_claim` returns it, for paths that are
/// searched in byte order. The search starts at the index `next`, and sets it to the index after
/// the found claim, or to that of the first claim with a later path. If the path or the first later
/// one is at `next`, three comparisons are made.
pub fn find_next_claim(claims: &[Claim<'_>], path: &FilePath<'_>, next: &mut usize) -> Option<usize>
    // The claims are in byte order of their paths.
    requires { IsSorted claim_cmp (map claim_seen claims.now) }
    // If an index is returned, it is that of one of the claims.
    ensures within { IfSome result (λ i. i < length claims.now) }
    // The claim with the returned index is the first one that has the path. None is returned if no
    // claim has it.
    ensures found { option_and_then (slice_get (map claim_seen claims.now)) result
        ≡ find (is_claim_of_path (joined_path path.now)) (map claim_seen claims.now) }
{
    let at = place_near(claims, path, *next);
    let found = claim_at(claims, path, at);
    *next = match found {
        Some(place) => place + 1,
        None => at,
    };
    found
}

/// The index `at`, if the claim with this index has the path. `at` is how many claims have paths
/// before this one.
fn claim_at(claims: &[Claim<'_>], path: &FilePath<'_>, at: usize) -> Option<usize>
    // The claims are in byte order of their paths.
    requires sorted { IsSorted claim_cmp (map claim_seen claims.now) }
    // `at` is at most the number of claims.
    requires bound { at ≤ length claims.now }
    // The first `at` claims have paths before this one, and the others do not.
    requires place { IsPartitionPoint (λ c. precedes c.path (joined_path path.now) ≡ true)
        (λ c. precedes c.path (joined_path path.now) ≡ false) (map claim_seen claims.now) at }
    // If an index is returned, it is that of one of the claims.
    ensures within { IfSome result (λ i. i < length claims.now) }
    // The claim with the returned index is the first one that has the path. None is returned if no
    // claim has it.
    ensures found { option_and_then (slice_get (map claim_seen claims.now)) result
        ≡ find (is_claim_of_path (joined_path path.now)) (map claim_seen claims.now) }
{
    if at == claims.len() {
        return None;
    }
    if claims[at].path.compare(path).is_eq() {
        Some(at)
    } else {
        None
    }
}

/// How many claims have paths before this one. If `guess` is this number, no binary search is made.
fn place_near(claims: &[Claim<'_>], path: &FilePath<'_>, guess: usize) -> usize
    // The claims are in byte order of their paths.
    requires { IsSorted claim_cmp (map claim_seen claims.now) }
    // The result is at most the number of claims.
    ensures bound { result ≤ length claims.now }
    // As many claims as the result says have paths before this one, and the others do not.
    ensures place { IsPartitionPoint (λ c. precedes c.path (joined_path path.now) ≡ true)
        (λ c. precedes c.path (joined_path path.now) ≡ false) (map claim_seen claims.now) result }
{
    if guess > claims.len() {
        return place_of(claims, path);
    }
    if guess > 0 && !claims[guess - 1].path.compare(path).is_lt() {
        return place_of(claims, path);
    }
    if guess < claims.len() && claims[guess].path.compare(path).is_lt() {
        return place_of(claims, path);
    }
    guess
}

/// How many claims have paths before this one, by a binary search.
fn place_of(claims: &[Claim<'_>], path: &FilePath<'_>) -> usize
    // The claims are in byte order of their paths.
    requires { IsSorted claim_cmp (map claim_seen claims.now) }
    // The result is at most the number of claims.
    ensures bound { result ≤ length claims.now }
    // As many claims as the result says have paths before this one, and the others do not.
    ensures place { IsPartitionPoint (λ c. precedes c.path (joined_path path.now) ≡ true)
        (λ c. precedes c.path (joined_path path.now) ≡ false) (map claim_seen claims.now) result }
{
    claims.partition_point(|claim| claim.path.compare(path).is_lt())
}

/// The first claim of each path, in byte order of the paths. If each path has one claim, the
/// given list is returned, and no memory is needed.
///
/// # Errors
///
/// The program is out of memory.
pub fn one_of_each_path<'a>(
    alloc: Global,
    claims: Vec<Claim<'a>>,
) -> Result<Vec<Claim<'a>>, AllocError>
    // The claims are in byte order of their paths.
    requires { IsSorted claim_cmp (map claim_seen claims.items) }
    // On Ok, the result has the first claim of each path, in byte order of the paths.
    ensures firsts { IfOk result
        (λ firsts. HasFirstClaimOfEachPath (map claim_seen claims.entry.items)
        (map claim_seen firsts.items)) }
    // If each path has one claim, the call needs no memory, and succeeds.
    ensures succeeds { HasFirstClaimOfEachPath (map claim_seen claims.entry.items)
        (map claim_seen claims.entry.items) → IsOk result }
{
    if has_one_claim_of_each_path(&claims) {
        return Ok(claims);
    }
    first_claims(alloc, &claims)
}

/// Whether each path has one claim, among claims in byte order of their paths.
fn has_one_claim_of_each_path(claims: &[Claim<'_>]) -> bool
    // The claims are in byte order of their paths.
    requires { IsSorted claim_cmp (map claim_seen claims.now) }
    // If so, the claims are the first ones of their paths.
    ensures firsts { result ≡ true
        → HasFirstClaimOfEachPath (map claim_seen claims.now) (map claim_seen claims.now) }
    // If not, the claims are not the first ones of their paths, since a path has two claims.
    ensures exact { result ≡ false
        → HasFirstClaimOfEachPath (map claim_seen claims.now) (map claim_seen claims.now) → ⊥ }
{
    for i in 0..claims.len() {
        if !begins_path(claims, i) {
            return false;
        }
    }
    true
}

/// A new list of the first claim of each path, in byte order of the paths.
fn first_claims<'a>(alloc: Global, claims: &[Claim<'a>]) -> Result<Vec<Claim<'a>>, AllocError>
    // The claims are in byte order of their paths.
    requires { IsSorted claim_cmp (map claim_seen claims.now) }
    // On Ok, the result has the first claim of each path, in byte order of the paths.
    ensures { IfOk result
        (λ firsts. HasFirstClaimOfEachPath (map claim_seen claims.now)
        (map claim_seen firsts.items)) }
{
    // The memory for all claims is asked for at once, since most paths have one claim. A list that
    // grows would leave smaller copies of itself in memory.
    let mut firsts = Vec::with_capacity(alloc, claims.len())?;
    for i in 0..claims.len() {
        if begins_path(claims, i) {
            firsts.push(claims[i])?;
        }
    }
    Ok(firsts)
}

/// The path, with its folder and name joined, as a name of a tree.
///
/// # Errors
///
/// The program is out of memory.
pub fn name_of_path(alloc: Global, path: &FilePath<'_>) -> Result<Name, AllocError>
    // The path is a valid name.
    requires { IsName (joined_path path.now) }
    ensures { IfOk result (λ name. name ≡ joined_path path.now) }
{
    let bytes = path_bytes(alloc, path)?;
    Name::of(alloc, &bytes)
}

/// The paths of the claims as names of a tree, in the same order.
///
/// # Errors
///
/// The program is out of memory.
pub fn names_of_claims(alloc: Global, claims: &[Claim<'_>]) -> Result<Names, AllocError>
    // Each path is a valid name.
    requires { HaveValidPaths (map claim_seen claims.now) }
    ensures { IfOk result (λ names. names ≡ map (λ c. c.path) (map claim_seen claims.now)) }
{
    let mut names = Names::new(alloc);
    for claim in claims {
        names.push(name_of_path(alloc, &claim.path)?)?;
    }
    Ok(names)
}
