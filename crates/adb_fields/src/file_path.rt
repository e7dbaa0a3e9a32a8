//! This module represents the path of a file by two separate texts: the folder and the name. It
//! compares such paths. Serves the search for a path that two packages have (`docs/formats.md`,
//! "Names that stand twice"), and the sorting of files by path. The path of a file is defined in
//! `docs/formats.md`, "Schemas" ("The path of a file").

ghost use Rattle.std.specs.Prelude.{◌≡◌, ◌<◌, ◌≤◌, ◌+◌, ◌^◌, length, take, drop, slice_get, IfSome};
ghost use Rattle.std.specs.Cmp.Lexicographic.{slice_cmp};
ghost use Rattle.std.specs.Ordering.{nat_cmp};
ghost use Rattle.adb_fields.specs.JoinedPath.{joined_path};

use std::cmp::Ordering;

/// The path of a file: the name of its folder, a slash, and the name of the file. In the root
/// folder, whose name is empty, it is the name of the file. The two texts are not joined, so no
/// memory is allocated.
#[derive(Clone, Copy)]
pub struct FilePath<'a> {
    /// The path of the folder; empty for the root folder.
    pub folder: &'a [u8],
    /// The name of the file in the folder.
    pub name: &'a [u8],
}

impl FilePath<'_> {
    /// The byte order of this path and the path `other`.
    #[tactic(auto, using(crate::proofs::Compared::apart_in_front, crate::proofs::Compared::same_in_front, crate::proofs::Compared::equal_folders))]
    pub fn compare(&self, other: &FilePath<'_>) -> Ordering
        ensures { result ≡ slice_cmp nat_cmp (joined_path self.now) (joined_path other.now) }
    {
        // Most paths that are compared have the same folder. Testing whether two texts are equal is
        // faster than comparing their order.
        if self.folder == other.folder {
            return self.name.cmp(&other.name);
        }
        let len = self.folder.len().min(other.folder.len());
        // The order of the folders, up to the length of the shorter one.
        let front = compared_fronts(self.folder, other.folder, len);
        if !front.is_eq() {
            return front;
        }
        compared_from(self, other, len)
    }

    /// The byte of the path at the index `i`, if there is one. A slash is between folder and name,
    /// unless the folder is the root folder.
    fn byte(&self, i: usize) -> Option<u8>
        // The result is the byte at the index, or None past the end.
        ensures byte { result ≡ slice_get (joined_path self.now) i }
        // The index is so small that one can be added to it.
        ensures small { IfSome result (λ _. i + 1 < 2 ^ 64) }
    {
        let len = self.folder.len();
        if len == 0 {
            return byte_at(self.name, i);
        }
        if i < len {
            return Some(self.folder[i]);
        }
        if i == len {
            return Some(b'/');
        }
        byte_at(self.name, i - len - 1)
    }
}

/// The order of the first `len` bytes of two texts.
fn compared_fronts(one: &[u8], other: &[u8], len: usize) -> Ordering
    // The length is within the first text.
    requires one { len ≤ length one.now }
    // The length is within the second text.
    requires other { len ≤ length other.now }
    ensures { result ≡ slice_cmp nat_cmp (take len one.now) (take len other.now) }
{
    let front = &one[..len];
    front.cmp(&&other[..len])
}

/// The byte order of two paths, of which only the bytes from the index `from` on are compared.
fn compared_from(one: &FilePath<'_>, other: &FilePath<'_>, from: usize) -> Ordering
    // The order is that of the bytes from the index on.
    ensures { result
        ≡ slice_cmp nat_cmp (drop from (joined_path one.now)) (drop from (joined_path other.now)) }
{
    let mut i = from;
    loop {
        match (one.byte(i), other.byte(i)) {
            (None, None) => return Ordering::Equal,
            (None, Some(_)) => return Ordering::Less,
            (Some(_), None) => return Ordering::Greater,
            (Some(byte), Some(another)) => {
                if byte != another {
                    return byte.cmp(&another);
                }
            }
        }
        i += 1;
    }
}

/// The byte at the index `i`, if there is one.
fn byte_at(bytes: &[u8], i: usize) -> Option<u8>
    // The result is the byte at the index, or None past the end.
    ensures byte { result ≡ slice_get bytes.now i }
    // The index is below 2^63.
    ensures small { IfSome result (λ _. i < 2 ^ 63) }
{
    if i < bytes.len() {
        Some(bytes[i])
    } else {
        None
    }
}
