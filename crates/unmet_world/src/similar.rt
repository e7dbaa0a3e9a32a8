//! The name of a package that differs by one letter from a name that no package has. The rules are
//! in `docs/commands.md`, "Why nothing can be selected".
ghost use Rattle.std.specs.Prelude.{◌≡◌, ◌≤◌, ◌<◌, length, slice_index_or, option_copied};
ghost use Rattle.unmet_world.specs.Similar.{differ_by_one, is_same_after_first, similar_name};

use search_tables::Sealed;

/// The name of the first package whose name differs by one byte from this one.
pub(crate) fn similar_name<'a>(pool: &Sealed<'a>, name: &[u8]) -> Option<&'a [u8]>
    ensures { option_copied result ≡ similar_name name.now pool.now.candidates }
{
    let packages = pool.packages();
    for i in 0..packages.len() {
        let found = packages.get(i).name();
        if differ_by_one(name, found) {
            return Some(found);
        }
    }
    None
}

// Whether two texts differ by one byte: only one of them has it, or it is another in each.
fn differ_by_one(text: &[u8], other: &[u8]) -> bool
    ensures { result ≡ differ_by_one text.now other.now }
{
    let shared = text.len().min(other.len());
    for i in 0..shared {
        if text[i] != other[i] {
            return is_same_after_first(&text[i..], &other[i..]);
        }
    }
    text.len().max(other.len()) - shared == 1
}

// Whether two texts are the same without the first byte of one of them, or of both.
fn is_same_after_first(text: &[u8], other: &[u8]) -> bool
    // Both texts have a first byte.
    requires text { 0 < length text.now }
    requires other { 0 < length other.now }
    ensures { result ≡ is_same_after_first text.now other.now }
{
    let rest = &text[1..];
    let other_rest = &other[1..];
    if rest == other_rest {
        return true;
    }
    if text == other_rest {
        return true;
    }
    rest == other
}
