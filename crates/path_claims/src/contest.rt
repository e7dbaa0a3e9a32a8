//! The member that beats all others that claim a path, given which members beat which; and the
//! rivals that are reported if there is no such member. `src/owner.rt` uses both.
//! The rule is in `docs/commands.md`, "Files that several packages list": "the one that beats every
//! other owns it", and which two packages are reported if none does. A `Contest` says which member
//! beats which.

ghost use Rattle.std.specs.Prelude.{◌≡◌, ◌==◌, ◌||◌, ℕ, Bool, map};
ghost use Rattle.path_claims.specs.Contest.{IsAsymmetric, are_all_others_beaten_by, first_with_unbeaten_rival, member_beating_all_others};
ghost use Rattle.path_claims.specs.LeftOver.{last_unbeaten_member};

use crate::claim::Claim;

/// Which of two members beats the other. Members are given by their indexes.
pub trait Contest {
    // The test as a definition for contracts: whether the first member beats the second.
    ghost beats: { Self → ℕ → ℕ → Bool };

    /// Whether the first member beats the second.
    fn beats(&self, one: u32, other: u32) -> bool
        ensures { result ≡ Self.beats self.now one other };
}

/// The rivals that are reported for a path without an owner: two members that claim it.
#[derive(Clone, Copy)]
pub struct Rivals {
    /// The index of the first member that claims the path.
    pub first: u32,
    /// The index of the first other member that claims the path and that the first one does not
    /// beat.
    pub second: u32,
}

/// The only member that may beat all others. The pass begins with the member `first`, and goes
/// through the members of the claims: each one that the current member does not beat replaces it.
fn last_unbeaten_member<C: Contest>(contest: &C, first: u32, claims: &[Claim<'_>]) -> u32
    // The result is the last current member of this pass.
    ensures { result ≡ last_unbeaten_member (C.beats contest.now) first (map
        (λ c. c.member) claims.now) }
{
    let mut left = first;
    for claim in claims {
        if !contest.beats(left, claim.member) {
            left = claim.member;
        }
    }
    left
}

/// Whether the member `one` beats each other member of the claims, which are those of one path.
fn is_winner<C: Contest>(contest: &C, one: u32, claims: &[Claim<'_>]) -> bool
    ensures { result ≡ are_all_others_beaten_by (C.beats contest.now) (map
        (λ c. c.member) claims.now) one }
{
    for claim in claims {
        if !is_same_or_beaten(contest, one, claim.member) {
            return false;
        }
    }
    true
}

/// Whether the two members are the same, or the first beats the second.
fn is_same_or_beaten<C: Contest>(contest: &C, one: u32, other: u32) -> bool
    ensures { result ≡ ((one == other) || C.beats contest.now one other) }
{
    if one == other {
        return true;
    }
    contest.beats(one, other)
}

/// The member that beats every other member of the claims, if there is one. The claims are those of
/// one path. The contest is asked at most twice for each claim.
pub(crate) fn member_beating_all_others<C: Contest>(
    contest: &C,
    claims: &[Claim<'_>],
) -> Option<u32>
    // No two members beat each other, so only the last unbeaten member can beat all others.
    requires { IsAsymmetric (C.beats contest.now) }
    ensures { result ≡ member_beating_all_others (C.beats contest.now) (map
        (λ c. c.member) claims.now) }
{
    if claims.is_empty() {
        return None;
    }
    // One pass finds the only possible member, and a second one tests it.
    let left = last_unbeaten_member(contest, claims[0].member, &claims[1..]);
    if is_winner(contest, left, claims) {
        Some(left)
    } else {
        None
    }
}

/// The member of the first claim, and the first other member of the claims that it does not beat.
/// None if it beats all others, or without claims.
pub(crate) fn first_with_unbeaten_rival<C: Contest>(
    contest: &C,
    claims: &[Claim<'_>],
) -> Option<Rivals>
    // The result has these two members, or is None.
    ensures { result ≡ first_with_unbeaten_rival (C.beats contest.now) (map
        (λ c. c.member) claims.now) }
{
    if claims.is_empty() {
        return None;
    }
    let first = claims[0].member;
    for claim in claims {
        if !is_same_or_beaten(contest, first, claim.member) {
            let second = claim.member;
            return Some(Rivals { first, second });
        }
    }
    None
}
