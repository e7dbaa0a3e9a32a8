//! The blocks of an ADB container (apk-v3(5)) in sequence, borrowed from the file's bytes. The
//! crate allocates no memory.
//!
//! `Blocks` reads the bytes of a file. It returns the schema and the blocks, or the first failed
//! test; `block_head` returns the header of a block to write. The contracts cite these modules of
//! `specs/`:
//!
//! - `BlockWithoutOffset`: a block, and the kinds;
//! - `Header` and `Framing`: the tests in their order;
//! - `PositionBetweenBlocks`: the position of a reader;
//! - `Reading` and `AllBlocks`: all that is read from a position;
//! - `Reader`: the result of a call;
//! - `Written`: how headers, blocks and containers are written;
//! - `Container`: the grammar of whole files.
//!
//! The rules are in `docs/formats.md`, "Container"; those for writing in "Canonical layout" ("In a
//! container each block is padded").
#![tactic(auto)]

mod block;
mod blocks;

pub use block::{Block, BlockKind, Frame, Head, block_head, frame_of, head_len, padding_of};
pub use blocks::{
    Blocks, a_container_has_one_reading, the_first_fault_of_framing_is_reported,
    what_is_read_is_spelled, what_is_spelled_is_read, what_is_written_is_spelled,
};
