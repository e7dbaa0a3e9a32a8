//! Answers questions about `adb_block`: the blocks of a container, the first failed test, and the
//! headers of blocks. The rules are in `docs/formats.md`, "Container".

use adb_block::{Block, BlockKind, Blocks, block_head, frame_of, head_len};
use base_core::{Cause, Words};
use row_lines::{Answer, Subject, number_of, value_named, word_at};
use std::alloc::{AllocError, Global};

/// The most blocks of a container that are printed in the answer to a row.
const MOST_BLOCKS: usize = 100;

/// The questions that a row may ask, with what is answered; the README of this crate says more.
#[derive(Clone, Copy)]
enum Question {
    /// `blocks BYTES`: the blocks of a container.
    Blocks,
    /// `cuts BYTES`: the first result for each prefix of a container.
    Cuts,
    /// `head KIND LEN`: the written header of a block.
    Head,
    /// `frame KIND LEFT HEAD`: the kind and the lengths that a header states.
    Frame,
}

// The word with which a row asks each question.
#[rattlefmt::skip]
const QUESTIONS: [(&[u8], Question); 4] = [
    (b"blocks", Question::Blocks),
    (b"cuts", Question::Cuts),
    (b"head", Question::Head),
    (b"frame", Question::Frame),
];

// The words by which rows and answers name the kinds of blocks.
#[rattlefmt::skip]
const KINDS: [(&[u8], BlockKind); 3] = [
    (b"adb", BlockKind::Adb),
    (b"signature", BlockKind::Signature),
    (b"contents", BlockKind::Contents),
];

/// The crate that the questions are about. Nothing is kept from one row to the next.
#[derive(Drop)]
pub(crate) struct FramedBlocks;

impl Subject for FramedBlocks {
    /// Answers a question by its first word. Questions are independent of each other.
    fn answer(
        &mut self,
        alloc: Global,
        words: &Words,
        answer: &mut Answer,
    ) -> Result<(), AllocError> {
        match value_named(&QUESTIONS, word_at(words, 0)) {
            Some(Question::Blocks) => add_blocks(alloc, word_at(words, 1), answer),
            Some(Question::Cuts) => add_cuts(alloc, word_at(words, 1), answer),
            Some(Question::Head) => add_head(words, answer),
            Some(Question::Frame) => add_frame(alloc, words, answer),
            None => answer.push(b"no question"),
        }
        Ok(())
    }
}

/// Answers `blocks BYTES`: the schema of a container, its blocks, and the result after the last
/// block, which a second call must repeat. A block is its kind, its offset and its payload.
fn add_blocks(alloc: Global, file: &[u8], answer: &mut Answer) {
    let mut blocks = match Blocks::new(file) {
        Ok(blocks) => blocks,
        Err(cause) => return add_cause(alloc, cause, answer),
    };
    let schema = blocks.schema();
    answer.add_text(format!(in alloc; "{schema:08x}"));
    for _ in 0..MOST_BLOCKS {
        // The offset that is announced for the next block.
        let at = blocks.next_at();
        match blocks.next() {
            Ok(Some(block)) => add_block(block, at, answer),
            // The end of the container, or an error.
            end => return add_end(alloc, &mut blocks, end.err(), answer),
        }
    }
}

/// Adds a block: its kind, its offset and its payload. `at` is the offset that was announced.
fn add_block(block: Block<'_>, at: Option<u64>, answer: &mut Answer) {
    answer.add_word(kind_name(block.kind));
    if at != Some(block.at) {
        answer.add_word(b"elsewhere");
    }
    answer.add_word(b"at ");
    answer.add_number(u128::from(block.at));
    answer.add_word(block.payload)
}

/// The word for a kind of block, as in `KINDS`.
fn kind_name(kind: BlockKind) -> &'static [u8] {
    match kind {
        BlockKind::Adb => b"adb",
        BlockKind::Signature => b"signature",
        BlockKind::Contents => b"contents",
    }
}

/// Adds the result `fault` after the last block, which one more call must repeat, and the offset of
/// the next block, if there is one.
fn add_end(alloc: Global, blocks: &mut Blocks<'_>, fault: Option<Cause>, answer: &mut Answer) {
    if blocks.next().err() != fault {
        return answer.add_word(b"another answer");
    }
    match fault {
        None => answer.add_word(b"end"),
        Some(cause) => add_cause(alloc, cause, answer),
    }
    if let Some(at) = blocks.next_at() {
        answer.add_word(b"next at ");
        answer.add_number(u128::from(at))
    }
}

/// Adds why a container is refused: the name of the cause and its fields.
fn add_cause(alloc: Global, cause: Cause, answer: &mut Answer) {
    // The empty word adds the space before the text.
    answer.add_word(b"");
    answer.add_text(format!(in alloc; "{cause:?}"))
}

/// Answers `cuts BYTES`: adds the length of each prefix of a file whose first result differs from
/// that of the prefix before, and this result. The result is the first failed test, or `a block` if
/// there is none.
fn add_cuts(alloc: Global, file: &[u8], answer: &mut Answer) {
    // The failed test of the prefix before, if there is one.
    let mut last = None;
    for len in 0..=file.len() {
        let found = match Blocks::new(&file[..len]) {
            Ok(mut blocks) => blocks.next().err(),
            Err(cause) => Some(cause),
        };
        if len == 0 || found != last {
            answer.add_word(b"from ");
            answer.add_number(len as u128);
            match found {
                Some(cause) => add_cause(alloc, cause, answer),
                None => answer.add_word(b"a block"),
            }
        }
        last = found;
    }
}

/// Answers `head KIND LEN`: the header of a block of this kind whose payload has this length.
fn add_head(words: &Words, answer: &mut Answer) {
    let kind = value_named(&KINDS, word_at(words, 1)).unwrap_or(BlockKind::Adb);
    let len = number_of(word_at(words, 2)).unwrap_or(0);
    // The raw size of a block counts its header too, which has 16 bytes at most.
    let len = u64::try_from(len).unwrap_or(0).min(u64::MAX - 16);
    answer.push(block_head(kind, len).bytes())
}

/// Answers `frame KIND LEFT HEAD`: the kind and the lengths of the block at the offset 8 that has
/// the header HEAD. The block before it has this kind, or there is none, and LEFT bytes of the file
/// are left.
fn add_frame(alloc: Global, words: &Words, answer: &mut Answer) {
    // The kind of the block before, and how many bytes of the file are left.
    let last = value_named(&KINDS, word_at(words, 1));
    let left = number_of(word_at(words, 2)).unwrap_or(0);
    let left = u64::try_from(left).unwrap_or(0);
    let head = word_at(words, 3);
    let len = head.len() as u64;
    // `frame_of` requires that HEAD has a whole header, or all of the bytes that are left.
    if len > left || len < head_len(head).min(left) {
        return answer.add_word(b"no header");
    }
    match frame_of(last, 8, head, left) {
        // The kind of the block, and the lengths of its header and its payload in bytes.
        Ok(Some(frame)) => {
            answer.add_word(kind_name(frame.kind));
            answer.add_word(b"of ");
            answer.add_number(u128::from(frame.head_len));
            answer.add_word(b"and ");
            answer.add_number(u128::from(frame.payload_len))
        }
        Ok(None) => answer.add_word(b"end"),
        Err(cause) => add_cause(alloc, cause, answer),
    }
}
