//! The reader of a file's header and of the file's blocks in sequence. Laws prove that the tests of
//! the reader and the grammar of a container agree on every file. The rules are in
//! `docs/formats.md`, "Container": the tests in the order of its table.

ghost use Rattle.std.specs.Prelude.{◌≡◌, ◌↔◌, [], drop, IfOk, IfErr, IfSome, IfNone, IsNone, OnErr, ◌<◌, ◌^◌, ℕ, List};
ghost use Rattle.adb_block.specs.Header.{schema_of_header};
ghost use Rattle.adb_block.specs.PositionBetweenBlocks.{first_block_position_of_schema_and_file};
ghost use Rattle.adb_block.specs.Reader.{next_offset};
ghost use Rattle.adb_block.specs.Reading.{block_stream_from};
ghost use Rattle.adb_block.specs.AllBlocks.{blocks_of, blocks_from_position};
ghost use Rattle.base_core.specs.declared.Cause.{Cause};
ghost use Rattle.adb_block.specs.Container.{IsContainerWithBlocks, CanBlocksBeWrittenAfter};
ghost use Rattle.adb_block.specs.FirstFraming.{IsFirstBlockFramingFault};
ghost use Rattle.adb_block.specs.BlockWithoutOffset.{BlockWithoutOffset};
ghost use Rattle.adb_block.specs.Written.{container};

use crate::block::{Block, BlockKind, block_at, word_at};
use base_core::Cause;
use std::marker::Model;

/// The blocks of a file, from the front. Contracts see the position of the reader:
/// `PositionBetweenBlocks` of `specs/`.
#[derive(Drop)]
pub struct Blocks<'a> {
    /// The whole file.
    bytes: &'a [u8],
    /// The schema in the file's header.
    schema: u32,
    /// The kind of the block that was read last; None before the first.
    last: Option<BlockKind>,
    /// The offset of the next block.
    at: usize,
}

impl<'a> Model for Blocks<'a> {
    ghost use Rattle.std.specs.Prelude.{◌≤◌, ◌+◌, length, drop};
    ghost use Rattle.adb_block.specs.PositionBetweenBlocks.{PositionBetweenBlocks};

    // Contracts see a reader as its position in the file.
    ghost Value = { PositionBetweenBlocks };

    ghost view = { λ b.
        record { schema = b.schema; last = b.last; at = b.at; left = drop b.at b.bytes.now } };

    // The offset may be past the file's end by the last padding, which may be absent.
    ghost invariant = { λ b. b.at ≤ length b.bytes.now + 8 };
}

impl<'a> Blocks<'a> {
    ghost use Rattle.adb_block.specs.Reader.{ReturnsNextSpelledBlock, IsNextBlockResultAtPosition, Advances, FindsEndOfBlocks, ContinuesReading, AreBlocksFromCall, AreBlocksOrHeaderFault};

    /// Reads the header of a file (apk-v3(5)): the four bytes `ADB.` and the schema. The error is
    /// that of the first failed test. Fewer than 4 bytes are truncated at 0. `ADBd` and `ADBc`
    /// begin a compressed file, and anything else than `ADB.` is no container. Fewer than 8 bytes
    /// are truncated at 0.
    #[tactic(auto, unfolding(crate::specs::AllBlocks::blocks_of))]
    pub fn new(bytes: &'a [u8]) -> Result<Blocks<'a>, Cause>
        // On Ok, the reader has the schema of the file's header.
        ensures ok { IfOk result (λ blocks. schema_of_header bytes.entry.now ≡ Ok blocks.schema) }
        // On Ok, the reader is before the first block.
        ensures start { IfOk result (λ blocks. blocks
            ≡ first_block_position_of_schema_and_file blocks.schema bytes.entry.now) }
        // An error is the first failed test of the header.
        ensures cause { IfErr result (λ cause. schema_of_header bytes.entry.now ≡ Err cause) }
        // For a caller's loop over all blocks: all blocks of the file are those from this position
        // on, or the fault of the header.
        ensures rest { AreBlocksOrHeaderFault (blocks_of bytes.entry.now) result }
    {
        let schema = read_header(bytes)?;
        Ok(Blocks {
            bytes,
            schema,
            last: None,
            at: 8,
        })
    }

    /// The schema in the file's header, which is the type of the root value.
    pub fn schema(&self) -> u32
        ensures { result ≡ self.now.schema }
    {
        self.schema
    }

    /// Reads the next block. The result is None if and only if the file ends here. An error is the
    /// cause of the first failed test, with the block's offset. The tests are, in this order:
    ///
    /// 1. The file has a block, and the block's header is complete. Otherwise the cause is
    ///    `Truncated`.
    /// 2. The block's kind is known, and allowed here. Otherwise the cause is `BlockOrder`.
    /// 3. The block's raw size is at least the length of its header, and the block ends within the
    ///    file. Otherwise the cause is `Truncated`.
    /// 4. The payload of an ADB block has at least 8 bytes. Otherwise the cause is `Truncated`.
    ///
    /// After an error the reader has not moved, so the next call returns the same error.
    pub fn next(&mut self) -> Result<Option<Block<'a>>, Cause>
        // The call returns the next block by the grammar of containers, and no other block.
        ensures blocks { ReturnsNextSpelledBlock self.old result self.new }
        // The result is the first failed test, or the block that passed all tests, or the end.
        ensures exact { IsNextBlockResultAtPosition self.old result self.new }

        // A returned block begins at the old position, and the new position is after the block.
        ensures found { IfOk result
            (λ found. IfSome found (λ block. Advances self.old block self.new)) }
        // The result is None exactly if no bytes were left.
        ensures end { IfOk result (λ found. IsNone found ↔ (self.old.left ≡ [])) }

        // If the result is None, at least one block was read before, and the reader has not moved.
        ensures none { IfOk result (λ found. IfNone found (FindsEndOfBlocks self.old self.new)) }
        // After an error the reader has not moved.
        ensures err { OnErr result (self.new ≡ self.old) }

        // For a caller's loop over all blocks: what the reader finds from the old position on is
        // the returned block, if any, and then what it finds from the new position on.
        ensures reading { ContinuesReading (block_stream_from self.old) result
            (block_stream_from self.new) }
        // The same as a list: the blocks, or the first failed test, from the old position on.
        ensures rest { AreBlocksFromCall (blocks_from_position self.old) result
            (blocks_from_position self.new) }
    {
        let at = self.at as u64;
        // The bytes of the file from the reader's offset on.
        let left = left_from(self.bytes, self.at);
        match block_at(self.last, at, left) {
            Err(cause) => Err(cause),
            Ok(None) => Ok(None),
            Ok(Some(frame)) => {
                self.at += frame.size;
                self.last = Some(frame.kind);
                Ok(Some(Block {
                    kind: frame.kind,
                    payload: frame.payload,
                    at,
                }))
            }
        }
    }

    /// The offset of the next block, or None if and only if that is at or past the file's end.
    pub fn next_at(&self) -> Option<u64>
        ensures { result ≡ next_offset self.now }
    {
        if self.at < self.bytes.len() {
            Some(self.at as u64)
        } else {
            None
        }
    }
}

/// The bytes of a file from an offset on; none if the offset is at or past the file's end, as after
/// a last padding that is absent.
fn left_from(bytes: &[u8], at: usize) -> &[u8]
    ensures { result.now ≡ drop at bytes.now }
{
    if at < bytes.len() { &bytes[at..] } else { &[] }
}

/// The schema in a file's header, which is `ADB.` and four bytes of schema, or the first failed
/// test of the header.
#[tactic(auto, unfolding(crate::specs::Header::schema_of_header))]
pub(crate) fn read_header(file: &[u8]) -> Result<u32, Cause>
    ensures { result ≡ schema_of_header file.now }
{
    if file.len() < 4 {
        return Err(Cause::Truncated { at: 0 });
    }
    let front = &file[..4];
    if front == b"ADBd".as_slice() || front == b"ADBc".as_slice() {
        return Err(Cause::Compressed);
    }
    if front != b"ADB.".as_slice() {
        return Err(Cause::NotAdb);
    }
    if file.len() < 8 {
        return Err(Cause::Truncated { at: 0 });
    }
    Ok(word_at(file, 4))
}

/// A law: if the reader finds no fault in a file, the file is a container, by the grammar, of the
/// schema and the blocks that are read. The padding after the last block may be absent.
pub fn what_is_read_is_spelled()
    ensures { (file : List ℕ) (schema : ℕ) (pieces : List BlockWithoutOffset)
        → schema_of_header file ≡ Ok schema → blocks_of file ≡ Ok pieces
        → IsContainerWithBlocks file schema pieces }
{}

/// A law: if a file is a container, by the grammar, of a schema and blocks, the reader finds
/// exactly this schema and these blocks, and no fault.
pub fn what_is_spelled_is_read()
    ensures { (file : List ℕ) (schema : ℕ) (pieces : List BlockWithoutOffset)
        → IsContainerWithBlocks file schema pieces → (schema_of_header file ≡ Ok schema)
        × (blocks_of file ≡ Ok pieces) }
{}

/// A law: the reader reports the first fault of the blocks. All blocks before it pass their tests.
/// The next block has an incomplete header, or a kind that is not allowed, or a size that is too
/// small or exceeds the file.
pub fn the_first_fault_of_framing_is_reported()
    ensures { (file : List ℕ) (schema : ℕ) (c : Cause)
        → schema_of_header file ≡ Ok schema → blocks_of file ≡ Err c
        → IsFirstBlockFramingFault file c }
{}

/// A law: a file is a container of at most one schema and one list of blocks.
pub fn a_container_has_one_reading()
    ensures { (file : List ℕ) (schema other : ℕ) (pieces others : List BlockWithoutOffset)
        → IsContainerWithBlocks file schema pieces → IsContainerWithBlocks file other others
        → (schema ≡ other) × (pieces ≡ others) }
{}

/// A law: the bytes that are written for a schema and blocks in an allowed order are a container,
/// by the grammar, of this schema and these blocks.
pub fn what_is_written_is_spelled()
    ensures { (schema : ℕ) (pieces : List BlockWithoutOffset)
        → schema < 2 ^ 32 → CanBlocksBeWrittenAfter None pieces
        → IsContainerWithBlocks (container schema pieces) schema pieces }
{}
