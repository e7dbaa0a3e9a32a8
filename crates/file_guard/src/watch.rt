//! A comparison of a file's bytes with an entry, piece by piece. It serves `compare_file`; the
//! rules are in `docs/commands.md`, "What a change does with files", part "Configuration files",
//! the table.

ghost use Rattle.std.specs.Prelude.{◌≡◌, ℕ, Bool, List, [], ◌++◌, Some};
ghost use Rattle.file_guard.specs.Listed.{is_as_described};
ghost use Rattle.file_guard.specs.Watching.{IsWatchOfTest};

use crate::compare::ListedFile;
use crate::link::{LINK_MARK, link_text_of_target};
use pkg_core::Hasher;

/// The comparison of a file with an entry, after some bytes of the file were read: what the
/// remaining bytes have to be. `Watching` of `specs/` relates this to the test of all bytes.
#[derive(Drop)]
pub(crate) enum Watch<'a> {
    /// Whatever the remaining bytes are, the file is not as listed.
    Never,
    /// The file is as listed if exactly these bytes remain, the first ones and then the second
    /// ones.
    Exactly(&'a [u8], &'a [u8]),
    /// The file is as listed if all bytes together have this digest.
    Hashed(Hasher, &'a [u8]),
}

impl<'a> Watch<'a> {
    /// The comparison with an entry, before the first byte of the file was read. Without an entry,
    /// no bytes are as listed.
    pub fn new(listed: Option<ListedFile<'a>>) -> Watch<'a>
        ensures { IsWatchOfTest result (is_as_described listed.entry) [] }
    {
        match listed {
            Some(listed) => watch_listed(listed),
            None => Watch::Never,
        }
    }

    /// The comparison after these further bytes of the file were read.
    pub fn take(self, bytes: &[u8]) -> Watch<'a>
        // If this was the comparison for a test after `so_far`, the result is the one after
        // `so_far` and these bytes.
        ensures { (test : List ℕ → Bool) (so_far : List ℕ) → IsWatchOfTest self.entry test so_far
            → IsWatchOfTest result test (so_far ++ bytes.now) }
    {
        match self {
            Watch::Never => Watch::Never,
            Watch::Exactly(first, second) => bytes_behind(first, second, bytes),
            Watch::Hashed(mut hasher, hash) => {
                hasher.update(bytes);
                Watch::Hashed(hasher, hash)
            }
        }
    }

    /// Whether the file is as listed, if all its bytes were read.
    pub fn has_listed_bytes(self) -> bool
        // The result is that of the test for all bytes that were read.
        ensures { (test : List ℕ → Bool) (bytes : List ℕ) → IsWatchOfTest self.entry test bytes
            → result ≡ test bytes }
    {
        match self {
            Watch::Never => false,
            Watch::Exactly(first, second) => first.is_empty() && second.is_empty(),
            Watch::Hashed(hasher, hash) => hasher.fault(hash).is_none(),
        }
    }
}

/// The comparison with this entry, before the first byte was read. For a link its bytes are
/// expected, for another entry its digest, and for the size 0 no bytes. An entry with a size above
/// 0 and no digest lists no bytes.
fn watch_listed<'a>(listed: ListedFile<'a>) -> Watch<'a>
    ensures { IsWatchOfTest result (is_as_described (Some listed.entry)) [] }
{
    if !listed.target.is_empty() {
        return Watch::Exactly(LINK_MARK, link_text_of_target(listed.target));
    }
    if !listed.hash.is_empty() {
        return Watch::Hashed(Hasher::new(listed.hash), listed.hash);
    }
    if listed.size == 0 {
        return Watch::Exactly(&[], &[]);
    }
    Watch::Never
}

/// The comparison after `bytes` were read, if exactly the bytes `first` and then `second` had to
/// follow.
fn bytes_behind<'a>(first: &'a [u8], second: &'a [u8], bytes: &[u8]) -> Watch<'a>
    ensures { (test : List ℕ → Bool) (so_far : List ℕ)
        → IsWatchOfTest (Watch.Exactly first.entry second.entry) test so_far
        → IsWatchOfTest result test (so_far ++ bytes.now) }
{
    // How many of the bytes are compared with `first`; those after them are compared with `second`.
    let len = bytes.len().min(first.len());
    let Some(first_left) = first.strip_prefix(&bytes[..len]) else {
        return Watch::Never;
    };
    match second.strip_prefix(&bytes[len..]) {
        Some(second_left) => Watch::Exactly(first_left, second_left),
        None => Watch::Never,
    }
}
