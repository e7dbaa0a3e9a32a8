//! One block: its kind, its header as read and as written, its framing, and the distance to the
//! next block. The rules are in `docs/formats.md`, "Container", "A block is a header" (the header,
//! the raw size, padding) and the rows "each block, at its offset" of its table. How a header is
//! written is defined in "Canonical layout" ("In a container each block is padded"). In the clauses
//! `exact` says that the result is that of the tests in their order, `order` that the kind is
//! allowed there, and `fits` that the block ends within the bytes.

ghost use Rattle.std.specs.Prelude.{◌≡◌, ◌≤◌, ◌<◌, ◌+◌, ◌-◌, ◌^◌, ◌⊎◌, ℕ, List, Option, None, true, IfOk, IfSome, IsSome, length, take};
ghost use Rattle.std.specs.Option.{option_map};
ghost use Rattle.adb_block.specs.Container.{IsHead};
ghost use Rattle.adb_block.specs.BlockWithoutOffset.{may_be_next_kind, least_payload_len, padding_of, kind_number};
ghost use Rattle.adb_block.specs.Framing.{HeadFields, block_head_fields, kind_of_number, next_block_result_by_kind_order, next_block_result_at_offset};
ghost use Rattle.adb_block.specs.Frames.{IsHeadPrefix, IsFrameOrEndOfBlockResult, IsFrameOfBlockResult, IsReadBlock, fields_of, head_len, raw_size};
ghost use Rattle.adb_block.specs.Written.{head_bytes};
ghost use Rattle.adb_block.specs.Header.{word_at, eight_byte_number_at};

use base_core::Cause;
use std::marker::Model;

/// What a block contains.
#[derive(Clone, Copy, Debug, PartialEq, Eq)]
pub enum BlockKind {
    /// The values of the container.
    Adb,
    /// A signature of the ADB block.
    Signature,
    /// The bytes of one file of a package.
    Contents,
}

/// A block, and the offset of its header in bytes from the file's start. The payload is borrowed
/// from the file: the bytes after the header, without padding.
#[derive(Clone, Copy)]
pub struct Block<'a> {
    /// What the block contains.
    pub kind: BlockKind,
    /// The bytes after the header, without padding.
    pub payload: &'a [u8],
    /// The offset of the header.
    pub at: u64,
}

/// The fields of a block's header: the number of its kind, the length of the header, and the raw
/// size, which counts the header and the payload.
#[derive(Clone, Copy)]
struct BlockHead {
    /// The number of the kind, which may be unknown.
    kind: u32,
    /// The length of the header in bytes: 4 or 16.
    len: u64,
    /// The length of the header and the payload in bytes.
    raw: u64,
}

/// A block that passed the tests of its framing: its kind, and the lengths of its header and its
/// payload in bytes. The payload need not be in memory.
#[derive(Clone, Copy)]
pub struct Frame {
    /// What the block contains.
    pub kind: BlockKind,
    /// The length of the header in bytes.
    pub head_len: u64,
    /// The length of the payload in bytes.
    pub payload_len: u64,
}

/// A block of a file in memory that passed its tests, and its size with padding.
#[derive(Clone, Copy)]
pub(crate) struct ReadBlock<'a> {
    /// What the block contains.
    pub kind: BlockKind,
    /// The bytes after the header, without padding.
    pub payload: &'a [u8],
    /// The distance to the next block in bytes: header, payload and padding.
    pub size: usize,
}

/// The block at the front of `bytes`, which are the bytes of the file from the offset `at` on,
/// after a block of the kind `last` (None: before the first). The result is None at the file's end.
#[tactic(auto, using(crate::proofs::Heads::begins_whole))]
pub(crate) fn block_at(
    last: Option<BlockKind>,
    at: u64,
    bytes: &[u8],
) -> Result<Option<ReadBlock<'_>>, Cause>
    // The block ends within the bytes, except that its padding may be cut.
    ensures fits { IfOk result (λ found. IfSome found (λ block.
        (0 < length bytes.now) × (block.size ≤ length bytes.now + 7))) }
    // The result is that of the tests at this offset, in their order.
    ensures exact { IsReadBlock result (next_block_result_at_offset last at bytes.now) }
{
    match frame_of(last, at, bytes, bytes.len() as u64) {
        Err(cause) => Err(cause),
        Ok(None) => Ok(None),
        Ok(Some(frame)) => {
            // Where the payload begins in `bytes`, and where it ends.
            let start = frame.head_len as usize;
            let raw = start + frame.payload_len as usize;
            Ok(Some(ReadBlock {
                kind: frame.kind,
                payload: &bytes[start..raw],
                size: raw + padding_of(raw),
            }))
        }
    }
}

/// The length in bytes of a block's header that begins with these bytes (apk-v3(5)): 16 if the top
/// two bits of its first four bytes, read as a number, are 3, else 4. For fewer than four bytes the
/// result is 4.
pub fn head_len(bytes: &[u8]) -> u64
    ensures value { result ≡ head_len bytes.now }
    // A header has 4 or 16 bytes.
    ensures either { (result ≡ 4) ⊎ (result ≡ 16) }
{
    if bytes.len() < 4 {
        return 4;
    }
    if word_at(bytes, 0) >> 30 == 3 { 16 } else { 4 }
}

/// Reads the header of the block at the offset `at`, after a block of the kind `last` (None: before
/// the first), and tests it. `left` is the number of bytes from the offset to the end of the file.
/// `head` has the first of these bytes: as many as the header has (`head_len`), if the file has
/// them all. The result is None at the end of the file.
///
/// # Errors
///
/// The first failed test, as in `Blocks::next`.
#[tactic(auto, unfolding(crate::specs::Framing::next_block_result_at_offset), using(crate::proofs::Heads::same_head, crate::proofs::Heads::framed_step))]
pub fn frame_of(
    last: Option<BlockKind>,
    at: u64,
    head: &[u8],
    left: u64,
) -> Result<Option<Frame>, Cause>
    // `head` has all bytes of the header that the file has.
    requires { IsHeadPrefix head.now left }
    // The result is that of the tests on any rest of a file that begins with `head` and has `left`
    // bytes.
    ensures exact { (bytes : List ℕ) → length bytes ≡ left → take (length head.now) bytes ≡ head.now
        → IsFrameOrEndOfBlockResult result bytes (next_block_result_at_offset last at bytes) }
    // Before the first block the result is never None: a file without blocks is an error.
    ensures first { last ≡ None → IfOk result (λ found. IsSome found) }
    // The kind is allowed after `last`.
    ensures order { IfOk result (λ found. IfSome found (λ frame.
        may_be_next_kind last frame.kind ≡ true)) }
    // The length of the header is that of its first bytes (`head_len`).
    ensures len { IfOk result (λ found. IfSome found (λ frame.
        frame.head_len ≡ head_len head.now)) }
    // Header and payload end within the file.
    ensures fits { IfOk result (λ found. IfSome found (λ frame.
        (0 < left) × (raw_size frame ≤ left))) }
{
    if left == 0 {
        return match last {
            None => Err(Cause::Truncated { at }),
            Some(_) => Ok(None),
        };
    }
    let Some(fields) = read_head(head) else {
        return Err(Cause::Truncated { at });
    };
    let frame = frame_by_head(last, at, left, fields)?;
    Ok(Some(frame))
}

/// The fields of the header at the front of the bytes, or None if the header is not complete. The
/// number 3 in the top two bits of its first four bytes marks a header of 16 bytes.
#[tactic(auto, unfolding(crate::specs::Framing::block_head_fields))]
fn read_head(bytes: &[u8]) -> Option<BlockHead>
    // The result has the fields that the specification reads.
    ensures exact { option_map fields_of result ≡ block_head_fields bytes.now }
    // The length of the header is that of its first bytes (`head_len`).
    ensures len { IfSome result (λ head. head.len ≡ head_len bytes.now) }
{
    if bytes.len() < 4 {
        return None;
    }
    let word = word_at(bytes, 0);
    // A header of 4 bytes: the kind in the top two bits, and below them the raw size.
    if word >> 30 != 3 {
        return Some(BlockHead {
            kind: word >> 30,
            len: 4,
            raw: u64::from(word & 0x3fff_ffff),
        });
    }
    if bytes.len() < 16 {
        return None;
    }
    // A header of 16 bytes: the kind in the low 30 bits, and the raw size in 8 bytes of its own.
    Some(BlockHead {
        kind: word & 0x3fff_ffff,
        len: 16,
        raw: eight_byte_number_at(bytes, 8),
    })
}

/// The frame of the block at the offset `at` with this header, or the first failed test of its kind
/// and its size. `last` is the kind of the block before it, and `left` the number of bytes from
/// `at` to the end of the file.
fn frame_by_head(
    last: Option<BlockKind>,
    at: u64,
    left: u64,
    head: BlockHead,
) -> Result<Frame, Cause>
    // The result is that of the tests on any rest of a file with `left` bytes and this header.
    ensures exact { (bytes : List ℕ) → length bytes ≡ left → IsFrameOfBlockResult result bytes
        (next_block_result_by_kind_order last at bytes (fields_of head)
        (kind_of_number head.kind)) }
    // The kind is allowed after `last`.
    ensures order { IfOk result (λ frame. may_be_next_kind last frame.kind ≡ true) }
    // The length of the header is the one that was read.
    ensures len { IfOk result (λ frame. frame.head_len ≡ head.len) }
    // Header and payload end within the file.
    ensures fits { IfOk result (λ frame. raw_size frame ≤ left) }
{
    let Some(kind) = kind_of_number(head.kind) else {
        return Err(Cause::BlockOrder { at });
    };
    if !may_be_next_kind(last, kind) {
        return Err(Cause::BlockOrder { at });
    }
    // The raw size counts the header too.
    if head.raw < head.len || head.raw > left {
        return Err(Cause::Truncated { at });
    }
    // The payload is shorter than its kind needs.
    if head.raw - head.len < least_payload_len(kind) {
        return Err(Cause::Truncated { at });
    }
    Ok(Frame {
        kind,
        head_len: head.len,
        payload_len: head.raw - head.len,
    })
}

/// The kind of block with this number in a header, or None if no kind has the number.
fn kind_of_number(number: u32) -> Option<BlockKind>
    ensures { result ≡ kind_of_number number }
{
    match number {
        0 => Some(BlockKind::Adb),
        1 => Some(BlockKind::Signature),
        2 => Some(BlockKind::Contents),
        _ => None,
    }
}

/// Whether a block of this kind may follow a block of the kind `last`, or, if `last` is None, be
/// the first.
fn may_be_next_kind(last: Option<BlockKind>, kind: BlockKind) -> bool
    ensures { result ≡ may_be_next_kind last kind }
{
    match (last, kind) {
        (None, BlockKind::Adb) => true,
        (None, _) => false,
        (Some(_), BlockKind::Adb) => false,
        (Some(BlockKind::Contents), BlockKind::Signature) => false,
        (Some(_), _) => true,
    }
}

/// The least length in bytes of the payload of a block of this kind: an ADB block has a head of 8.
fn least_payload_len(kind: BlockKind) -> u64
    ensures { result ≡ least_payload_len kind }
{
    match kind {
        BlockKind::Adb => 8,
        BlockKind::Signature | BlockKind::Contents => 0,
    }
}

/// How many bytes of padding follow a header and a payload of this size: up to the next multiple of
/// eight.
pub fn padding_of(size: usize) -> usize
    ensures value { result ≡ padding_of size }
    // Fewer than eight bytes are needed.
    ensures few { result < 8 }
{
    (8 - size % 8) % 8
}

/// The largest raw size that fits into a header of four bytes, which has 30 bits for it.
const MOST_SHORT: u64 = 0x3fff_ffff;

/// The header of a block, of 4 or 16 bytes. Contracts see its bytes.
#[derive(Drop)]
pub struct Head {
    /// The bytes of the header, and zeros after them.
    bytes: [u8; 16],
    /// The length of the header: 4 or 16.
    len: usize,
}

impl Model for Head {
    ghost use Rattle.std.specs.Prelude.{ℕ, ◌≤◌, List, take};

    // Contracts see a header as the list of its bytes.
    ghost Value = { List ℕ };

    ghost view = { λ head. take head.len head.bytes };

    // The header is not longer than its buffer.
    ghost invariant = { λ head. head.len ≤ 16 };
}

impl Head {
    /// The bytes of the header: 4 or 16 of them.
    pub fn bytes(&self) -> &[u8]
        ensures bytes { result.now ≡ self.now }
        // There are at most 16 bytes.
        ensures short { length result.now ≤ 16 }
    {
        &self.bytes[..self.len]
    }
}

/// The header of a block of this kind whose payload has this length (apk-v3(5)). The raw size
/// counts the header and the payload. The header has 4 bytes if the raw size is at most 0x3fffffff,
/// else 16, of which four are reserved and 0.
#[tactic(auto, unfolding(crate::specs::Written::head_bytes))]
pub fn block_head(kind: BlockKind, payload_len: u64) -> Head
    // The raw size, with a header of 16 bytes, fits in 64 bits.
    requires { payload_len < 2 ^ 64 - 16 }
    // The header has the bytes of the specification.
    ensures bytes { result ≡ head_bytes kind payload_len }
    // These bytes are a header by the grammar of containers.
    ensures head { IsHead kind payload_len result }
{
    let number = kind_number(kind);
    // The raw size with a header of 4 bytes.
    let raw = 4 + payload_len;
    let mut bytes = [0; 16];
    if raw <= MOST_SHORT {
        bytes[..4].copy_from_slice(&(number << 30 | raw as u32).to_le_bytes());
        return Head { bytes, len: 4 };
    }
    // A header of 16 bytes: 3 and the kind, four zeros, and the raw size.
    bytes[..4].copy_from_slice(&((3 << 30) + number).to_le_bytes());
    // Bytes 4 to 7 are zeros.
    bytes[8..].copy_from_slice(&(16 + payload_len).to_le_bytes());
    Head { bytes, len: 16 }
}

/// The number of a kind of block in a header.
fn kind_number(kind: BlockKind) -> u32
    ensures value { result ≡ kind_number kind }
    // The number 3 is no kind: it marks a header of 16 bytes.
    ensures few { result < 3 }
{
    match kind {
        BlockKind::Adb => 0,
        BlockKind::Signature => 1,
        BlockKind::Contents => 2,
    }
}

/// The number in the four bytes at an offset, the least significant first.
pub(crate) fn word_at(bytes: &[u8], at: usize) -> u32
    // The four bytes are within the bytes.
    requires { at + 4 ≤ length bytes.now }
    ensures { result ≡ word_at at bytes.now }
{
    let word = &bytes[at..at + 4];
    u32::from_le_bytes([word[0], word[1], word[2], word[3]])
}

/// The number in the eight bytes at an offset, the least significant first.
pub(crate) fn eight_byte_number_at(bytes: &[u8], at: usize) -> u64
    // The eight bytes are within the bytes.
    requires { at + 8 ≤ length bytes.now }
    ensures { result ≡ eight_byte_number_at at bytes.now }
{
    let long = &bytes[at..at + 8];
    u64::from_le_bytes([
        long[0], long[1], long[2], long[3], long[4], long[5], long[6], long[7],
    ])
}
