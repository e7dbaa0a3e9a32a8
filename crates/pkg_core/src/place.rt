//! The position of a reader in the blocks of a package, and the tests of the next block. The rules
//! are in `docs/formats.md`, "The other blocks"; the framing of a block in "Container".

ghost use Rattle.std.specs.Prelude.{◌≡◌, ◌≤◌, ◌+◌, ◌-◌, ℕ, List, None, Some, Ok, length, drop, IfOk, IfSome, OnOk};
ghost use Rattle.adb_block.specs.Framing.{ended};
ghost use Rattle.adb_block.specs.Frames.{IsFrameOrEndOfBlockResult, raw_size};
ghost use Rattle.adb_block.specs.declared.block.BlockKind.TheVariants as Kinds;
ghost use Rattle.pkg_core.specs.Places.{HasWholeFileLeft, HasPositions, OpensOnlyContents, IsStepResult, IsWalkAfterStep, place_after, block_step_at, whole_size};
ghost use Rattle.pkg_core.specs.declared.place.Step.TheVariants.{End as Ended};

use crate::file::{FileCheck, open_file};
use crate::walk::{POSITIONS_LEN, Walk};
use adb_block::{BlockKind, Frame, padding_of};
use base_core::Cause;

/// The position of a reader in the blocks of a package after the first one: in a file of `len`
/// bytes, after a block of the kind `last`, at the offset of the next block; and the walk over the
/// files whose contents are expected.
#[derive(Clone, Copy)]
pub struct BlockPlace<'a> {
    /// How many bytes the file has.
    pub len: u64,
    /// The files whose contents are expected.
    pub walk: Walk<'a>,
    /// The kind of the block directly before the offset `at`, which decides what may follow.
    pub last: BlockKind,
    /// The offset of the next block.
    pub at: u64,
}

/// What `BlockPlace::step` finds at its offset, after the first block: the end, or one more block.
#[derive(Drop)]
pub enum Step<'a> {
    /// No block is left, and no file is expected.
    End,
    /// The block has no contents.
    Passed,
    /// The block has the contents of the next expected file, whose bytes are still to be taken.
    Opened(FileCheck<'a>),
}

impl<'a> BlockPlace<'a> {
    /// Advances over the next block: `framing` is the result of `frame_of` of `adb_block` for its
    /// header, and `positions` are the first eight bytes of its payload, which count only if it has
    /// as many.
    ///
    /// # Errors
    ///
    /// `Truncated` if contents have fewer than eight bytes; the errors of `open_file`; and
    /// `DataOrder` with (0, 0) if no block is left and a file is expected.
    pub fn step(
        &mut self,
        framing: Option<Frame>,
        positions: &[u8; POSITIONS_LEN],
    ) -> Result<Step<'a>, Cause>
        // The offset of the place is within the file.
        requires at { self.old.at ≤ self.old.len }
        // The block ends within the file.
        requires fits { IfSome framing (λ frame. raw_size frame ≤ self.old.len - self.old.at) }
        // For each file of this length that has this block at the place, the result and the new
        // place are those of *IsStepResult*.
        ensures step { (file : List ℕ) → length file ≡ self.old.len
            → IsFrameOrEndOfBlockResult (Ok framing) (drop self.old.at file)
            (block_step_at self.old file)
            → HasPositions framing positions.now self.old file
            → IsStepResult framing self.old file result self.new }
        // The length of the file is unchanged.
        ensures len { self.new.len ≡ self.old.len }
        // The new place is after the block and its padding.
        ensures behind { IfSome framing (λ frame. OnOk result (self.new.at
            ≡ self.old.at + whole_size frame (self.old.len - self.old.at))) }
        // The place is still within the file.
        ensures within { self.new.at ≤ self.new.len }
        // All bytes of an opened file are still to be taken: those of the payload after the
        // positions.
        ensures left { IfSome framing (λ frame. IfOk result (HasWholeFileLeft frame)) }
        // A file is opened only by a block of contents.
        ensures kind { IfSome framing (λ frame. IfOk result (OpensOnlyContents frame)) }
        // The walk passes an opened file, and no other; at the end it expects no file.
        ensures walk { IfOk result (λ step. IsWalkAfterStep self.old.walk step self.new.walk) }
        // If no block is left (`framing` is None), the result is `End` or an error.
        ensures ended { framing ≡ None → IfOk result (λ step. step ≡ Ended) }
    {
        match framing {
            None => self.end(),
            Some(frame) => match frame.kind {
                BlockKind::Contents => self.open(frame, positions),
                BlockKind::Adb | BlockKind::Signature => {
                    self.pass(frame);
                    Ok(Step::Passed)
                }
            },
        }
    }

    /// The step after the last block: `End`, or an error if the walk still expects a file. The
    /// clauses are those of `step`.
    #[tactic(auto, using(crate::proofs::Placed::end_good, crate::proofs::Placed::end_bad))]
    fn end(&mut self) -> Result<Step<'a>, Cause>
        // For each file in which no block is left at the place, the result is that of
        // *IsStepResult*.
        ensures step { (file : List ℕ) → block_step_at self.old file ≡ ended
            → IsStepResult None self.old file result self.new }
        // The length of the file is unchanged.
        ensures len { self.new.len ≡ self.old.len }
        // The offset of the place is unchanged.
        ensures at { self.new.at ≡ self.old.at }
        // The walk passes an opened file, and no other; at the end it expects no file.
        ensures walk { IfOk result (λ step. IsWalkAfterStep self.old.walk step self.new.walk) }
        // On Ok, the result is `End`.
        ensures ended { IfOk result (λ step. step ≡ Ended) }
    {
        match self.walk.end() {
            Ok(()) => Ok(Step::End),
            Err(cause) => Err(cause),
        }
    }

    /// Opens the file whose contents are in this block. The clauses are those of `step`.
    fn open(&mut self, frame: Frame, positions: &[u8; POSITIONS_LEN]) -> Result<Step<'a>, Cause>
        // The place is within the file.
        requires at { self.old.at ≤ self.old.len }
        // The block ends within the file.
        requires fits { raw_size frame ≤ self.old.len - self.old.at }
        // The block is one of contents.
        requires kind { frame.kind ≡ Kinds.Contents }
        // For each file of this length that has this block at the place, the result and the new
        // place are those of *IsStepResult*.
        ensures step { (file : List ℕ) → length file ≡ self.old.len
            → IsFrameOrEndOfBlockResult (Ok (Some frame)) (drop self.old.at file)
            (block_step_at self.old file)
            → HasPositions (Some frame) positions.now self.old file
            → IsStepResult (Some frame) self.old file result self.new }
        // The length of the file is unchanged.
        ensures len { self.new.len ≡ self.old.len }
        // The new place is after the block and its padding.
        ensures behind { OnOk result (self.new.at
            ≡ self.old.at + whole_size frame (self.old.len - self.old.at)) }
        // The place is still within the file.
        ensures within { self.new.at ≤ self.new.len }
        // All bytes of an opened file are still to be taken: those of the payload after the
        // positions.
        ensures left { IfOk result (HasWholeFileLeft frame) }
        // A file is opened only by a block of contents.
        ensures kind { IfOk result (OpensOnlyContents frame) }
        // The walk passes an opened file, and no other; at the end it expects no file.
        ensures walk { IfOk result (λ step. IsWalkAfterStep self.old.walk step self.new.walk) }
    {
        // The payload of a block of contents begins with the two positions, which are eight bytes.
        if frame.payload_len < POSITIONS_LEN as u64 {
            return Err(Cause::Truncated { at: self.at });
        }
        match open_file(&mut self.walk, frame.payload_len, positions) {
            Ok(file) => {
                self.pass(frame);
                Ok(Step::Opened(file))
            }
            Err(cause) => Err(cause),
        }
    }

    /// Advances over a block and its padding, as far as the file has it.
    fn pass(&mut self, frame: Frame)
        // The place is within the file.
        requires at { self.old.at ≤ self.old.len }
        // The block ends within the file.
        requires fits { raw_size frame ≤ self.old.len - self.old.at }
        // The new place is after the block and its padding; the walk is unchanged.
        ensures { self.new ≡ place_after self.old frame }
    {
        // How many bytes the file has from the block on, and how many the block has without its
        // padding.
        let left = self.len - self.at;
        let raw = frame.head_len + frame.payload_len;
        let padding = padding_of(raw as usize) as u64;
        self.at += raw + padding.min(left - raw);
        self.last = frame.kind;
    }
}
