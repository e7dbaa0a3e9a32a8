//! If names repeat in a list, this module finds the two positions that are reported. `repeated`
//! uses this. The rule is in `docs/formats.md`, "Names that stand twice", below the table ("the
//! pair with the smallest second position").

ghost use Rattle.std.specs.Prelude.{◌≡◌, ◌<◌, ◌^◌, ◌+◌, ◌≤◌, length, map, take, drop, slice_get, IfSome, ℕ, List};
ghost use Rattle.std.specs.Cmp.Lexicographic.{slice_cmp};
ghost use Rattle.std.specs.Ordering.{nat_cmp};
ghost use Rattle.adb_fields.specs.Pairs.{least_pair_of_equal_names, pair_if_same_name_and_first_precedes, lesser_pair, least_pair, is_lesser_pair_by_second_then_first};
ghost use Rattle.adb_fields.specs.FirstPair.{IsLeastPairIfAny};
ghost use Rattle.adb_fields.specs.FirstPair.{IsPairOfEqualNames};
ghost use Rattle.adb_fields.specs.NamedTexts.{joined_name_with_position, name_with_position_cmp, neighbours};
ghost use Rattle.adb_fields.specs.Repeated.{names_with_list_positions, least_pair_of_lists_sharing_a_name, least_positions_of_name_twice_in_list, numbered_from, least_positions_of_name_twice_in_one_list};
ghost use Rattle.adb_fields.specs.FirstPair.{ArePositionsOfNameTwiceInOneList};

use crate::file_path::FilePath;
use std::cmp::Ordering;

/// Two positions at which a list has the same name. Positions count from 1.
#[derive(Clone, Copy)]
pub(crate) struct Pair {
    /// The smaller position.
    pub first: u32,
    /// The greater position.
    pub second: u32,
}

/// A name, or the path of a file, with its position.
#[derive(Clone, Copy)]
pub(crate) struct PathWithPosition<'a> {
    /// The path of a file; of a name, the folder is empty.
    pub path: FilePath<'a>,
    /// The position of the name, counted from 1. Of a path it is the position of its package.
    pub position: u32,
}

impl Pair {
    /// Whether this pair is reported rather than the pair `other`: its second position is smaller;
    /// or the second positions are equal, and its first position is smaller.
    fn is_lesser_pair_by_second_then_first(&self, other: &Pair) -> bool
        ensures { result ≡ is_lesser_pair_by_second_then_first self.now other.now }
    {
        if self.second != other.second {
            return self.second < other.second;
        }
        self.first < other.first
    }
}

/// The one of two pairs that is reported; None if there is neither.
pub(crate) fn lesser_pair(one: Option<Pair>, other: Option<Pair>) -> Option<Pair>
    ensures { result ≡ lesser_pair one other }
{
    match (one, other) {
        (None, other) => other,
        (one, None) => one,
        (Some(one), Some(other)) => Some(if other.is_lesser_pair_by_second_then_first(&one) {
            other
        } else {
            one
        }),
    }
}

/// The pair that is reported, of all pairs of positions at which `entries` have the same name. It
/// has the smallest second position, and of the pairs with this second position the smallest first
/// position. None if no name repeats. Afterwards the entries are sorted by name.
pub(crate) fn least_pair_of_equal_names(entries: &mut [PathWithPosition<'_>]) -> Option<Pair>
    ensures { result ≡ least_pair_of_equal_names (map joined_name_with_position entries.old) }
{
    entries.sort_unstable_by(|one, other| compared(one, other));
    first_of_neighbours(entries)
}

/// The pair that is reported, of the pairs of positions of neighbours: of an entry and the next
/// one. Two neighbours make a pair if their names are equal and the first has the smaller position.
/// If the entries are sorted, the result is the pair that is reported of all pairs.
fn first_of_neighbours(entries: &[PathWithPosition<'_>]) -> Option<Pair>
    ensures { result ≡ least_pair (neighbours (map joined_name_with_position entries.now)) }
{
    let mut first = None;
    for i in 1..entries.len() {
        first = lesser_pair(
            first,
            pair_if_same_name_and_first_precedes(&entries[i - 1], &entries[i]),
        );
    }
    first
}

/// The positions of two entries, if their names are equal and the position of `one` is smaller.
#[tactic(auto, using(crate::proofs::Compared::same_names))]
fn pair_if_same_name_and_first_precedes(
    one: &PathWithPosition<'_>,
    other: &PathWithPosition<'_>,
) -> Option<Pair>
    // The pair, or None, is that of the definition.
    ensures { result ≡ pair_if_same_name_and_first_precedes (joined_name_with_position one.now)
        (joined_name_with_position other.now) }
{
    if !one.path.compare(&other.path).is_eq() {
        return None;
    }
    if one.position >= other.position {
        return None;
    }
    Some(Pair {
        first: one.position,
        second: other.position,
    })
}

/// The order in which names are sorted: by name, and equal names by position.
fn compared(one: &PathWithPosition<'_>, other: &PathWithPosition<'_>) -> Ordering
    // The order is that of the definition.
    ensures { result ≡ name_with_position_cmp (joined_name_with_position one.now)
        (joined_name_with_position other.now) }
{
    let names = one.path.compare(&other.path);
    names.then(one.position.cmp(&other.position))
}

/// A law: if names repeat in a list, the first pair of positions with the same name is reported. It
/// has the smallest second position, and of the pairs with this second position the smallest first
/// position.
pub fn the_first_pair_of_a_list_is_reported()
    ensures { (names : List (List ℕ))
        → IsLeastPairIfAny (IsPairOfEqualNames (numbered_from 1 names))
        (least_positions_of_name_twice_in_list names) }
{}

/// A law: if names repeat within one of several lists, the first pair of positions in one list with
/// the same name is reported. A name that two lists have does not count.
pub fn the_first_pair_in_one_of_several_lists_is_reported()
    ensures { (lists : List (List (List ℕ)))
        → IsLeastPairIfAny (ArePositionsOfNameTwiceInOneList lists)
        (least_positions_of_name_twice_in_one_list lists) }
{}

/// A law: if several lists share names, the positions of two lists that share one are reported. Of
/// all such pairs of positions, this one has the smallest second position, and then the smallest
/// first position. A name that one list has twice does not count.
pub fn the_first_pair_of_two_lists_is_reported()
    ensures { (lists : List (List (List ℕ)))
        → IsLeastPairIfAny (IsPairOfEqualNames (names_with_list_positions 1 lists))
        (least_pair_of_lists_sharing_a_name lists) }
{}
