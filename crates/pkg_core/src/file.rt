//! The check of one file of a package whose contents are taken in pieces. The rules are in
//! `docs/formats.md`, "The other blocks", point 2 of the last list; the tests in the first list.

ghost use Rattle.std.specs.Prelude.{◌≡◌, ◌<◌, ◌≤◌, ◌+◌, ◌-◌, ℕ, List, [], ◌∷◌, ◌++◌, length, take, None, IfNone, IfOk, IfSome};
ghost use Rattle.adb_schema.specs.Soundness.{folder_and_file_positions_from_payload};
ghost use Rattle.pkg_core.specs.Contents.{ExpectedFile, POSITIONS_LEN, contents_from_block_payload, files_read_from_blocks};
ghost use Rattle.pkg_core.specs.Opened.{expected_of, files_left_in_walk};
ghost use Rattle.pkg_core.specs.Pieces.{PiecesRead, part_of, pieces_of_payload, position_or_size_fault, files_joined_from_pieces, pieces_read_from_blocks};
ghost use Rattle.pkg_core.specs.Taking.{HasTaken, IsOpenResult, IsPartOfCheckedFile, IsTakeResult, HasTakenOrPassedDigest, file_bytes_left, next_piece_len};
ghost use Rattle.adb_block.specs.Reading.{Reading};

use crate::hasher::Hasher;
use crate::walk::{POSITIONS_LEN, Walk, Wanted};
use adb_schema::folder_and_file_positions_from_payload;
use base_core::Cause;

/// The check of one file whose contents are taken in pieces: the expected file, and how many of the
/// bytes of this file were taken. Contracts see, by `Taking` of `specs/`, which bytes these were.
#[derive(Drop)]
pub struct FileCheck<'a> {
    /// The expected file.
    wanted: Wanted<'a>,
    /// How many bytes of the file were taken so far.
    done: u64,
    /// The hasher that has taken these bytes, by the function of the expected digest.
    hasher: Hasher,
}

impl<'a> FileCheck<'a> {
    /// The check of a file before its first byte.
    pub fn new(wanted: Wanted<'a>) -> FileCheck<'a>
        // No bytes were taken yet.
        ensures taken { HasTaken result [] }
        // The check is of the given file.
        ensures wanted { result.wanted ≡ wanted.entry }
        // All bytes of the file are left.
        ensures left { file_bytes_left result ≡ wanted.entry.size }
    {
        FileCheck {
            wanted,
            done: 0,
            hasher: Hasher::new(wanted.hash),
        }
    }

    /// The length of the next piece in bytes: 65,536, or the rest of the file.
    pub fn next_piece_len(&self) -> usize
        ensures { result ≡ next_piece_len self.now }
    {
        // How many bytes of the file were not taken yet.
        let left = self.wanted.size.saturating_sub(self.done);
        left.min(PIECE_LEN as u64) as usize
    }

    /// Takes the next piece. It returns which part of which file the piece is, and the check of the
    /// rest of the file, unless the piece is the last one.
    ///
    /// # Errors
    ///
    /// `HashDiffers`, after the last piece, if all bytes together do not have the file's digest.
    pub fn take(self, bytes: &[u8]) -> Result<(Part, Option<FileCheck<'a>>), Cause>
        // The piece has the length that the reader expects next.
        requires { length bytes.now ≡ next_piece_len self }
        // Let `so_far` be the bytes taken before, and `left` the rest of the file after these
        // bytes. Then these bytes are the next piece, or the digest of the whole file differs
        // (*IsTakeResult*).
        ensures taken { (so_far left : List ℕ) (further : PiecesRead) → HasTaken self.entry so_far
            → length (so_far ++ (bytes.now ++ left)) ≡ self.entry.wanted.size
            → IsTakeResult self.entry so_far bytes.now left further result }
        // After the last piece all bytes together have the file's digest. After another piece, the
        // returned check has taken all bytes to the end of this piece.
        ensures digest { (so_far : List ℕ) → HasTaken self.entry so_far → IfOk result (λ taken.
            HasTakenOrPassedDigest self.entry.wanted.hash.now (so_far ++ bytes.now) taken.1) }
        // The returned part is of this file, and so is a returned check. The part is marked as the
        // last one exactly if no check is returned.
        ensures part { IfOk result (IsPartOfCheckedFile self.entry) }
        // A returned check has as many bytes left as this check, less those of this piece.
        ensures left { IfOk result (λ taken. IfSome taken.1 (λ further.
            file_bytes_left further ≡ file_bytes_left self.entry - length bytes.now)) }
        // A returned check has bytes left.
        ensures more { IfOk result (λ taken. IfSome taken.1 (λ further.
            0 < file_bytes_left further)) }
        // If no check is returned, this piece has all bytes that were left.
        ensures all { IfOk result (λ taken. IfNone taken.1
            (length bytes.now ≡ file_bytes_left self.entry)) }
    {
        let wanted = self.wanted;
        // How many bytes of the file were left before this piece.
        let left = wanted.size.saturating_sub(self.done);
        let len = bytes.len() as u64;
        let mut hasher = self.hasher;
        hasher.update(bytes);
        if len < left {
            let done = self.done + len;
            let further = FileCheck {
                wanted,
                done,
                hasher,
            };
            // This piece is not the last one of the file.
            return Ok((part_of(wanted, false), Some(further)));
        }
        // All bytes of the file were taken, so their digest is compared with the expected one.
        match hasher.fault(wanted.hash) {
            Some(cause) => Err(cause),
            // This piece is the last one of the file.
            None => Ok((part_of(wanted, true), None)),
        }
    }
}

/// The part that a piece of this file is. `last`: whether the piece is the last one of the file.
fn part_of(wanted: Wanted<'_>, last: bool) -> Part
    ensures { result ≡ part_of (expected_of wanted.entry) last }
{
    Part {
        path: wanted.folder,
        file: wanted.file,
        last,
    }
}

/// Opens the file of a block of contents, which must be the next one of the walk. The block's
/// payload has this length, and begins with these positions of a folder and of its file.
///
/// # Errors
///
/// First the positions are compared, then the size: `DataOrder`, with (0, 0) if no file is
/// expected, or `DataSize`.
pub fn open_file<'a>(
    walk: &mut Walk<'a>,
    len: u64,
    positions: &[u8; POSITIONS_LEN],
) -> Result<FileCheck<'a>, Cause>
    // The payload has at least the two positions of contents.
    requires { POSITIONS_LEN ≤ len }
    // For each payload of this length that begins with these positions, the result is that of
    // *IsOpenResult*. `further` gives the pieces of the blocks after this one.
    ensures opened { (payload : List ℕ) (further : List ExpectedFile → PiecesRead)
        → length payload ≡ len → take POSITIONS_LEN payload ≡ positions.now
        → IsOpenResult (pieces_of_payload payload further (files_left_in_walk walk.old)) payload
        (further (files_left_in_walk walk.new)) result }
    // All bytes after the positions are still to be taken.
    ensures left { IfOk result (λ file. POSITIONS_LEN + file_bytes_left file ≡ len) }
    // The opened file is the first one that the walk expected; the walk then expects the others.
    ensures walk { IfOk result (λ file.
        files_left_in_walk walk.old ≡ expected_of file.wanted ∷ files_left_in_walk walk.new) }
{
    // The positions that the block names.
    let found = folder_and_file_positions_from_payload(positions);
    let Some(wanted) = walk.next() else {
        return Err(Cause::DataOrder {
            expected: (0, 0),
            found,
        });
    };
    match position_or_size_fault(found, len - POSITIONS_LEN as u64, wanted) {
        Some(cause) => Err(cause),
        None => Ok(FileCheck::new(wanted)),
    }
}

/// Why a block of contents with the positions `found` and a file of `size` bytes is not that of the
/// wanted file. First the positions are compared, then the size. None if both agree.
fn position_or_size_fault(found: (u32, u32), size: u64, wanted: Wanted<'_>) -> Option<Cause>
    // The result is that of the definition for each payload with these positions and this size.
    ensures exact { (payload : List ℕ) → length (contents_from_block_payload payload) ≡ size
        → folder_and_file_positions_from_payload payload ≡ found
        → result ≡ position_or_size_fault payload (expected_of wanted.entry) }
    // Without a fault, the block has a file of the expected size.
    ensures size { result ≡ None → size ≡ wanted.entry.size }
{
    let expected = (wanted.folder, wanted.file);
    if found != expected {
        return Some(Cause::DataOrder { expected, found });
    }
    if size != wanted.size {
        return Some(Cause::DataSize {
            wanted: wanted.size,
            found: size,
        });
    }
    None
}

/// The most bytes of a piece, so the most bytes of a file's contents in memory at once.
pub const PIECE_LEN: usize = 65536;

/// Which file a piece is a part of, by the position of its folder (`path`) and its position in the
/// folder, which count from 1, and whether the piece is the last one of the file.
#[derive(Clone, Copy)]
pub struct Part {
    /// The position of the folder in the package, counted from 1.
    pub path: u32,
    /// The position of the file in the folder, counted from 1.
    pub file: u32,
    /// Whether the piece is the last one of the file.
    pub last: bool,
}

/// The pieces of each file, joined in order, are its contents, and the first failed test is the
/// same: blocks read in pieces give the same result as blocks read as whole files.
pub fn the_pieces_of_each_file_joined_are_its_contents()
    ensures { (expected : List ExpectedFile) (r : Reading)
        → files_joined_from_pieces (pieces_read_from_blocks expected r) []
        ≡ files_read_from_blocks expected r }
{}
