//! Whether a pattern of a trigger matches a folder, used by `watched.rt`. The rule is in
//! `docs/commands.md`, "`add` and `del`", part "Which triggers are due": the sentences on patterns.
ghost use Rattle.base_core.specs.Name.{path_parts_of};
ghost use Rattle.change_outcome.specs.Triggers.{do_patterns_match_parts_one_to_one, is_folder_matched_by_pattern};
ghost use Rattle.package_files.specs.Folders.{is_slash};
ghost use Rattle.std.specs.Prelude.{◌≡◌, count_by};

use change_outcome::matches;
use dep_core::without_leading_slash;

/// Whether a pattern matches a folder; the name of the root is empty. The time is in proportion to
/// the lengths of both.
#[tactic(auto, unfolding(change_outcome::specs::Triggers::is_folder_matched_by_pattern))]
pub(crate) fn is_folder_matched_by_pattern(folder: &[u8], pattern: &[u8]) -> bool
    ensures { result ≡ is_folder_matched_by_pattern folder.now pattern.now }
{
    if folder.is_empty() {
        return pattern == b"/".as_slice();
    }
    do_patterns_match_parts_one_to_one(without_leading_slash(pattern), folder)
}

/// Whether a pattern and a folder have equally many parts between slashes, and each part of the
/// pattern matches the part of the folder at the same position.
fn do_patterns_match_parts_one_to_one(pattern: &[u8], folder: &[u8]) -> bool
    ensures { result ≡ do_patterns_match_parts_one_to_one (path_parts_of pattern.now)
        (path_parts_of folder.now) }
{
    if count_slashes(pattern) != count_slashes(folder) {
        return false;
    }
    let parts = folder.split(|b| *b == b'/');
    pattern
        .split(|b| *b == b'/')
        .zip(parts)
        .all(|(wanted, part)| matches(wanted, part))
}

/// How many slashes bytes have: one less than their number of parts.
fn count_slashes(bytes: &[u8]) -> usize
    ensures { result ≡ count_by is_slash bytes.now }
{
    bytes.iter().filter(|b| **b == b'/').count()
}
