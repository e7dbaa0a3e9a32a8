//! The reader of a block: its header, and the positions at the front of contents; and the search
//! for the next file with contents. The rules are in `docs/formats.md`, "The other blocks"; the
//! framing of a block in "Container".

ghost use Rattle.std.specs.Prelude.{◌≡◌, ◌≤◌, ◌<◌, ◌+◌, ◌-◌, ◌^◌, ℕ, List, length, IfErr, IfOk, IfSome, OnOk};
ghost use Rattle.adb_block.specs.Frames.{raw_size};
ghost use Rattle.pkg_core.specs.Seen.{AreBytesRead, HasBytesAtOffset, IsSeenIn, ReadsFile};
ghost use Rattle.package_reader.specs.Blocks.{ReadEndsBeforeNext, IsAtLaterPlace, IsWalkAfterBlock, IsBlockRead, AreSeenWithinPositions, IsNextBlock, SeesPositions, head_size};
ghost use Rattle.package_reader.specs.declared.piece.PieceFault.TheVariants.{Disk as DiskFault};
ghost use Rattle.pkg_core.specs.Taking.{file_bytes_left};
ghost use Rattle.pkg_core.specs.Contents.{POSITIONS_LEN};
ghost use Rattle.package_reader.specs.Readers.{FindsNextFile, IsFileFound};

use crate::open::OpenFile;
use crate::piece::PieceFault;
use adb_block::{Frame, frame_of};
use base_core::{Name, Tree};
use pkg_core::{BlockPlace, FileCheck, HeadBytes, POSITIONS_LEN, Step};

/// The parts of a block that were read: its frame, and the first eight bytes of its payload, if it
/// has as many.
#[derive(Clone, Copy)]
pub(crate) struct BlockRead {
    /// The frame that the block's header gives; None if no block is left at the place.
    pub framing: Option<Frame>,
    /// The first eight bytes of the payload: two positions, if the block is one of contents. Zeros
    /// if the payload has fewer than eight bytes.
    pub positions: [u8; POSITIONS_LEN],
}

/// What `next_block` finds at a place of a package in a tree: the end, or one more block.
#[derive(Drop)]
pub(crate) enum BlockStep<'a> {
    /// No block is left, and no file is expected.
    End,
    /// The block has no contents.
    Passed,
    /// The block has the contents of the next expected file, none of which were read yet.
    Opened(OpenFile<'a>),
}

/// Advances over the block at a place, in the package of this name. It reads only the block's
/// header and the first eight bytes of its payload. The tree is unchanged, whatever the result.
///
/// # Errors
///
/// `Bad` with the first failed test: of the block's framing, as in `frame_of` of `adb_block`, or of
/// its contents' positions and size, as in `BlockPlace::step` of `pkg_core`. `Disk` if the tree
/// failed.
pub(crate) fn next_block<'a, T: Tree>(
    tree: &mut T,
    name: &Name,
    place: &mut BlockPlace<'a>,
) -> Result<BlockStep<'a>, PieceFault>
    // The place is within the file.
    requires { place.old.at ≤ place.old.len }
    // The bytes `seen` were read from the old place on, and end no later than the next read begins.
    // For each package of this length that has them there, the result is that for the block at the
    // old place (*IsNextBlock*).
    ensures block { (seen : List ℕ)
        × IsSeenIn (T.history tree.old) name.now place.old.len place.old.at seen
        × IfOk result (λ step. ReadEndsBeforeNext (place.old.at + length seen) step place.new)
        × ((file : List ℕ) → length file ≡ place.old.len → HasBytesAtOffset file place.old.at seen
        → IsNextBlock place.old file result place.new) }
    // The length of the package is unchanged.
    ensures len { place.new.len ≡ place.old.len }
    // The new place is within the package.
    ensures within { place.new.at ≤ place.new.len }
    // The walk passes an opened file, and no other; at the end no file was expected.
    ensures walk { IfOk result (λ step. IsWalkAfterBlock place.old.walk step place.new.walk) }
    // If a block was passed, the new place is after the old one. An opened file ends no later than
    // the new place.
    ensures further { IfOk result (λ step. IsAtLaterPlace place.old step place.new) }
    // The tree is unchanged. `Disk` is returned only if the tree failed, and no call is a misuse if
    // the tree has a file of this length under the name.
    ensures tree { ReadsFile name.now place.old.len DiskFault (T.history tree.old)
        (T.history tree.new) (T.counts tree.old) (T.counts tree.new) result }
{
    let read = read_block(tree, name, place)?;
    let at = place.at;
    match place.step(read.framing, &read.positions) {
        Ok(Step::End) => Ok(BlockStep::End),
        Ok(Step::Passed) => Ok(BlockStep::Passed),
        Ok(Step::Opened(file)) => Ok(BlockStep::Opened(file_at(file, at, read.framing))),
        Err(cause) => Err(PieceFault::Bad(cause)),
    }
}

/// The file that a block at an offset opens: its bytes follow the header and the positions.
fn file_at<'a>(file: FileCheck<'a>, at: u64, framing: Option<Frame>) -> OpenFile<'a>
    // Offsets have 64 bits.
    requires { at + head_size framing + POSITIONS_LEN < 2 ^ 64 }
    // The open file has the given check.
    ensures file { result.file ≡ file.entry }
    // The bytes of the file begin after the header and the eight bytes of the positions.
    ensures at { result.at ≡ at + head_size framing + POSITIONS_LEN }
{
    let head_len = match framing {
        Some(frame) => frame.head_len,
        None => 0,
    };
    OpenFile {
        file,
        at: at + head_len + POSITIONS_LEN as u64,
    }
}

/// Reads the header and the positions of the block at a place.
pub(crate) fn read_block<T: Tree>(
    tree: &mut T,
    name: &Name,
    place: &BlockPlace<'_>,
) -> Result<BlockRead, PieceFault>
    // The place is within the file.
    requires { place.now.at ≤ place.now.len }
    // The block ends within the file.
    ensures fits { IfOk result (λ read. IfSome read.framing (λ frame.
        (0 < frame.head_len) × (raw_size frame ≤ place.now.len - place.now.at))) }
    // The end of the block is below 2^64.
    ensures small { IfOk result (λ read. IfSome read.framing (λ frame.
        place.now.at + raw_size frame < 2 ^ 64)) }
    // The bytes `seen` were read at the place: at most the block's header and its positions. For
    // each file of this length that has them there, the result is its block at this place.
    ensures block { (seen : List ℕ)
        × IsSeenIn (T.history tree.old) name.now place.now.len place.now.at seen
        × IfOk result (λ read. AreSeenWithinPositions read.framing (length seen))
        × ((file : List ℕ) → length file ≡ place.now.len → HasBytesAtOffset file place.now.at seen
        → IsBlockRead place.now file result) }
    // The tree is unchanged. `Disk` is returned only if the tree failed, and no call is a misuse if
    // the tree has a file of this length under the name.
    ensures tree { ReadsFile name.now place.now.len DiskFault (T.history tree.old)
        (T.history tree.new) (T.counts tree.old) (T.counts tree.new) result }
{
    let at = place.at;
    let left = place.len - at;
    let head = HeadBytes::read(tree, name, at, left)?;
    let framing = frame_of(Some(place.last), at, head.bytes(), left)?;
    let positions = read_positions(tree, name, at, framing)?;
    Ok(BlockRead { framing, positions })
}

/// Reads the first eight bytes of the payload of a block at an offset, if it has as many.
#[tactic(auto, using(pkg_core::proofs::SeenBytes::seen_by_read, pkg_core::proofs::SeenBytes::proper_where_long))]
fn read_positions<T: Tree>(
    tree: &mut T,
    name: &Name,
    at: u64,
    framing: Option<Frame>,
) -> Result<[u8; POSITIONS_LEN], PieceFault>
    // The end of the block fits into 64 bits.
    requires { IfSome framing (λ frame. at + raw_size frame < 2 ^ 64) }
    // The bytes that were read (`seen`) are the positions, if the payload has eight bytes or more.
    ensures seen { IfOk result (λ positions. (seen : List ℕ) × SeesPositions framing positions seen
        × ((file_len : ℕ)
        → AreBytesRead (T.history tree.old) name.now file_len (at + head_size framing) seen)) }
    // The only error is that the tree failed.
    ensures disk { IfErr result (λ fault. fault ≡ DiskFault) }
    // The tree is unchanged. `Disk` is returned only if the tree failed, and no call is a misuse if
    // the tree has a file of this length under the name.
    ensures tree { (file_len : ℕ) → at ≤ file_len
        → IfSome framing (λ frame. at + raw_size frame ≤ file_len)
        → ReadsFile name.now file_len DiskFault (T.history tree.old) (T.history tree.new)
        (T.counts tree.old) (T.counts tree.new) result }
{
    let mut positions = [0; POSITIONS_LEN];
    if let Some(frame) = framing {
        if frame.payload_len >= POSITIONS_LEN as u64 {
            tree.read_at(name, at + frame.head_len, &mut positions)?;
        }
    }
    Ok(positions)
}

/// Advances to the next file with contents, over blocks without any; None after the last block.
pub(crate) fn next_file<'a, T: Tree>(
    tree: &mut T,
    name: &Name,
    place: &mut BlockPlace<'a>,
) -> Result<Option<OpenFile<'a>>, PieceFault>
    // The place is within the file.
    requires { place.old.at ≤ place.old.len }
    // The bytes `seen` were read from the old place on, and end no later than the next read begins.
    // For each package of this length that has them there, the result is the next of its files with
    // contents, or None (*IsFileFound*).
    ensures file { (seen : List ℕ)
        × IsSeenIn (T.history tree.old) name.now place.old.len place.old.at seen
        × IfOk result (λ found. IfSome found (λ next.
        place.old.at + length seen ≡ next.at))
        × ((pkg : List ℕ) → length pkg ≡ place.old.len → HasBytesAtOffset pkg place.old.at seen
        → IsFileFound place.old pkg result place.new) }
    // The length of the package is unchanged.
    ensures len { place.new.len ≡ place.old.len }
    // The new place is within the package.
    ensures within { place.new.at ≤ place.new.len }
    // The walk passes the file that was found, and no other with contents; if none was found, no
    // file was expected.
    ensures walk { IfOk result (λ found. FindsNextFile place.old.walk found place.new.walk) }
    // The next file ends no later than the new place.
    ensures room { IfOk result (λ found. IfSome found (λ next.
        next.at + file_bytes_left next.file ≤ place.new.at)) }
    // The tree is unchanged. `Disk` is returned only if the tree failed, and no call is a misuse if
    // the tree has a file of this length under the name.
    ensures tree { ReadsFile name.now place.old.len DiskFault (T.history tree.old)
        (T.history tree.new) (T.counts tree.old) (T.counts tree.new) result }
{
    'more: loop {
        match next_block(tree, name, place)? {
            BlockStep::End => return Ok(None),
            // A block without contents is passed over.
            BlockStep::Passed => {}
            BlockStep::Opened(file) => return Ok(Some(file)),
        }
    }
}
