//! This module reads a whole container, and searches it for repeated names. The order of the tests
//! is in `docs/formats.md`, "Tests of a container". The tests after the first block are in "The
//! other blocks", and the schema words in "Schemas". The clause `bad` says which cause is returned,
//! and `sound` that no test failed. The clauses `table`, `payload` and `value` say what was read.

ghost use Rattle.std.specs.Prelude.{ℕ, List, All, ◌<◌, ◌≡◌, ◌≤◌, None, Some, length, codes, IfOk, IfErr};
ghost use Rattle.std.specs.Result.{result_err};
ghost use Rattle.std.specs.Int.{w32, to_le_bytes};
ghost use Rattle.adb_fields.specs.Repeated.{repeated_fault};
ghost use Rattle.adb_block.specs.Reading.{block_stream_from};
ghost use Rattle.adb_view.specs.Adb.{payload_of};
ghost use Rattle.adb_view.specs.ShapedPayload.{adb_of};
ghost use Rattle.adb_schema.specs.Checked.{checked_value, table_of_checked};
ghost use Rattle.adb_view.specs.Plain.{IsNormal};
ghost use Rattle.adb_view.specs.declared.tables.Which.{Which};
ghost use Rattle.adb_schema.specs.SoundContainers.{IsSoundValue};
ghost use Rattle.adb_schema.specs.Soundness.{truncated_or_unexpected_contents_fault, folder_and_file_positions_from_payload, container_fault_except_contents, remaining_blocks_fault, payload_fault, is_wanted_schema_present_and_equal, payload_in, remaining_blocks_fault_unless_package, root_value_of_payload, header_schema_if_root_table, truncated_or_unexpected_contents_cause};
ghost use Rattle.adb_schema.specs.ReadFaults.{first_block_fault};
ghost use Rattle.adb_schema.specs.ReadFaults.{IsAfterFirstBlock};
ghost use Rattle.adb_schema.specs.ReadFaults.{IsReadFault};
ghost use Rattle.adb_schema.specs.SoundContainers.{IsSoundContainerExceptContents};

use crate::checked::Checked;
use crate::text_walk::no_text_is_bad_where_each_keeps_its_rule;
use adb_block::{Block, BlockKind, Blocks};
use adb_fields::{no_repeated_name_is_reported_if_there_is_none, repeated_names};
use adb_view::{
    Adb, Which, shape, values_are_normal, values_have_their_shape,
    values_of_few_visits_have_no_fault,
};
use base_core::Cause;
use std::alloc::{AllocError, Global};
use thiserror::Error;

/// The schema of a package: `pckg`, as the number of four bytes, the first the least significant.
pub const PACKAGE_WORD: u32 = 0x676b_6370;

/// The schema of an index: `indx`.
pub const INDEX_WORD: u32 = 0x7864_6e69;

/// The schema of an installed database: `idb` and a zero byte.
pub const IDB_WORD: u32 = 0x0062_6469;

/// The schema of an intent: `intt`.
pub const INTENT_WORD: u32 = 0x7474_6e69;

/// Why a container is not read.
#[derive(Clone, Copy, Debug, Drop, Error)]
pub enum ReadFault {
    /// The first test that failed.
    #[error("bad container")]
    Bad(Cause),
    /// Out of memory.
    #[error("out of memory")]
    Memory,
}

impl From<Cause> for ReadFault {
    ghost use Rattle.std.specs.Prelude.{◌≡◌};
    ghost use Rattle.adb_schema.specs.declared.read.ReadFault.TheVariants.{Bad};

    // The fault has this cause.
    ghost from_gives = { λ cause fault. fault ≡ Bad cause };

    // The first failed test as the fault of a read.
    fn from(cause: Cause) -> ReadFault {
        ReadFault::Bad(cause)
    }
}

impl From<AllocError> for ReadFault {
    ghost use Rattle.std.specs.Prelude.{◌≡◌};
    ghost use Rattle.adb_schema.specs.declared.read.ReadFault.TheVariants.{Memory};

    // The fault is `Memory`.
    ghost from_gives = { λ _ fault. fault ≡ Memory };

    // Out of memory, as the fault of a read.
    fn from(_: AllocError) -> ReadFault {
        ReadFault::Memory
    }
}

/// The schema in the header of a container with this table at its root; None for the six tables
/// that are no root.
pub fn header_schema_if_root_table(which: Which) -> Option<u32>
    ensures { result ≡ header_schema_if_root_table which }
{
    match which {
        Which::Package => Some(PACKAGE_WORD),
        Which::Index => Some(INDEX_WORD),
        Which::Idb => Some(IDB_WORD),
        Which::Intent => Some(INTENT_WORD),
        _ => None,
    }
}

/// Searches a checked container for a repeated name. It returns the cause `Repeated`, or None if
/// and only if no name repeats. The kinds of names are searched in this order, and each kind in all
/// packages before the next kind:
///
/// 1. in a package and in a database, a folder that one package lists twice;
/// 2. in a package and in a database, a file that one folder lists twice;
/// 3. in a database, a name that two packages have;
/// 4. in a database, a path that two packages list, at the positions of the packages;
/// 5. in a journal entry, a name that occurs twice in its removals followed by its writes.
///
/// The first kind with a repeated name is reported, by the pair of positions with the smallest
/// second position. Of the pairs with this second position, the one with the smallest first
/// position is reported.
pub fn repeated(alloc: Global, checked: &Checked<'_>) -> Result<Option<Cause>, AllocError>
    // On Ok, the result is the cause of the definition, or None.
    ensures { IfOk result (λ cause. cause
        ≡ repeated_fault (table_of_checked checked.now) (checked_value checked.now)) }
{
    repeated_names(alloc, &checked.shaped())
}

/// Reads a container (apk-v3(5)) with this table at its root. These tests are made in this order:
///
/// 1. the header and the schema of the file;
/// 2. the framing, the head, the shape, the texts and the repeated names of the first block;
/// 3. except for a package, the framing of the further blocks, and that none of them has contents.
///
/// # Errors
///
/// `Bad` with the cause of the first failed test, or `Memory`. If the table is no root, each schema
/// is wrong.
#[tactic(auto, unfolding(crate::specs::Soundness::container_fault_except_contents, crate::specs::Soundness::payload_in))]
pub fn read_adb<'a>(alloc: Global, bytes: &'a [u8], which: Which) -> Result<Checked<'a>, ReadFault>
    // The error is the first failed test, or out of memory.
    ensures bad { IfErr result (λ fault. IsReadFault fault
        (container_fault_except_contents which bytes.entry.now)) }
    // On Ok, the file passes all tests of a container of this table.
    ensures sound { IfOk result (λ _. container_fault_except_contents which bytes.entry.now
        ≡ None) }
    // On Ok, the table at the root is `which`.
    ensures table { IfOk result (λ checked. table_of_checked checked ≡ which) }
    // The payload is that of the container's first block.
    ensures payload { IfOk result (λ checked. payload_of (adb_of checked.shaped)
        ≡ payload_in bytes.entry.now) }
    // The value is that of the payload's root.
    ensures value { IfOk result (λ checked. checked_value checked
        ≡ root_value_of_payload which (payload_in bytes.entry.now)) }
{
    let mut blocks = Blocks::new(bytes)?;
    let found = blocks.schema();
    if !is_wanted_schema_present_and_equal(which, found) {
        return Err(ReadFault::Bad(Cause::WrongSchema { found }));
    }
    let checked = read_first(alloc, &mut blocks, which)?;
    check_rest(&mut blocks, which)?;
    Ok(checked)
}

/// Whether a container with this table at its root has this schema in its header.
fn is_wanted_schema_present_and_equal(which: Which, schema: u32) -> bool
    ensures { result ≡ is_wanted_schema_present_and_equal
        (header_schema_if_root_table which) schema }
{
    match header_schema_if_root_table(which) {
        Some(word) => word == schema,
        None => false,
    }
}

/// Reads the first block, which exists unless its framing is refused, and tests its payload.
fn read_first<'a>(
    alloc: Global,
    blocks: &mut Blocks<'a>,
    which: Which,
) -> Result<Checked<'a>, ReadFault>
    // No block was read before.
    requires { blocks.old.last ≡ None }
    // The error is the first failed test, or out of memory.
    ensures bad { IfErr result
        (λ fault. IsReadFault fault (first_block_fault which (block_stream_from blocks.old))) }
    // On Ok, the table at the root is `which`.
    ensures table { IfOk result (λ checked. table_of_checked checked ≡ which) }
    // On Ok, the payload is that of the first block and passes its tests, and the blocks that are
    // left are those after the first.
    ensures behind { IfOk result
        (λ checked. IsAfterFirstBlock which (payload_of (adb_of checked.shaped)) (block_stream_from
        blocks.old)
        (block_stream_from blocks.new)) }
{
    match blocks.next()? {
        Some(block) => check_payload(alloc, block.payload, which),
        // A file with a header has a first block, or the framing of that block is refused.
        None => unreachable!(),
    }
}

/// Tests the payload of the first block: its head, its shape, its texts, and repeated names.
fn check_payload<'a>(
    alloc: Global,
    payload: &'a [u8],
    which: Which,
) -> Result<Checked<'a>, ReadFault>
    // The error is the first failed test, or out of memory.
    ensures bad { IfErr result
        (λ fault. IsReadFault fault (payload_fault which payload.entry.now)) }
    // On Ok, the payload passes all its tests.
    ensures sound { IfOk result (λ _. payload_fault which payload.entry.now ≡ None) }
    // On Ok, the table at the root is `which`.
    ensures table { IfOk result (λ checked. table_of_checked checked ≡ which) }
    // The payload is the given one.
    ensures payload { IfOk result (λ checked. payload_of (adb_of checked.shaped)
        ≡ payload.entry.now) }
{
    let adb = Adb::new(payload)?;
    let shaped = shape(adb, which)?;
    let checked = Checked::new(alloc, shaped)?;
    match repeated(alloc, &checked)? {
        Some(cause) => Err(ReadFault::Bad(cause)),
        None => Ok(checked),
    }
}

/// Tests the blocks after the first. In a package nothing is tested here: `pkg_core` tests them
/// against the files that the package lists.
fn check_rest(blocks: &mut Blocks<'_>, which: Which) -> Result<(), Cause>
    // The result is the first fault of these blocks, or Ok.
    ensures { result_err result
        ≡ remaining_blocks_fault_unless_package which (block_stream_from blocks.old) }
{
    match which {
        Which::Package => Ok(()),
        _ => check_further(blocks),
    }
}

/// Tests the blocks after the first, in a container that is no package: they are framed rightly,
/// and none has contents.
#[tactic(auto, unfolding(crate::specs::Soundness::remaining_blocks_fault))]
fn check_further(blocks: &mut Blocks<'_>) -> Result<(), Cause>
    ensures { result_err result ≡ remaining_blocks_fault (block_stream_from blocks.old) }
{
    loop {
        let Some(block) = blocks.next()? else {
            return Ok(());
        };
        if let Some(cause) = truncated_or_unexpected_contents_fault(&block) {
            return Err(cause);
        }
    }
}

/// Why a block is not allowed after the first block of a container that is no package: it has
/// contents. None for a block of another kind.
fn truncated_or_unexpected_contents_fault(block: &Block<'_>) -> Option<Cause>
    ensures { result
        ≡ truncated_or_unexpected_contents_fault block.now.kind block.now.payload.now block.now.at }
{
    match block.kind {
        BlockKind::Contents => Some(truncated_or_unexpected_contents_cause(
            block.payload,
            block.at,
        )),
        BlockKind::Adb | BlockKind::Signature => None,
    }
}

/// The cause for a block of contents, at the offset `at`, where no contents are allowed. A payload
/// of fewer than 8 bytes is too short for its two positions. A longer one has the positions of a
/// file, while (0, 0), which is no file, was expected.
fn truncated_or_unexpected_contents_cause(payload: &[u8], at: u64) -> Cause
    ensures { result ≡ truncated_or_unexpected_contents_cause payload.now at }
{
    if payload.len() < 8 {
        return Cause::Truncated { at };
    }
    Cause::DataOrder {
        expected: (0, 0),
        found: folder_and_file_positions_from_payload(payload),
    }
}

/// The two numbers at the beginning of a block of contents (apk-v3(5)): the position of the folder
/// in its package, and that of the file in this folder. Both count from 1.
pub fn folder_and_file_positions_from_payload(payload: &[u8]) -> (u32, u32)
    // The payload has at least the 8 bytes of the two positions.
    requires { 8 ≤ length payload.now }
    ensures { result ≡ folder_and_file_positions_from_payload payload.now }
{
    (
        u32::from_le_bytes([payload[0], payload[1], payload[2], payload[3]]),
        u32::from_le_bytes([payload[4], payload[5], payload[6], payload[7]]),
    )
}

/// A law: in the header of a file, the schemas of the four roots are these four bytes.
pub fn schema_words_are_as_listed()
    // The schema of a package.
    ensures package { to_le_bytes w32 PACKAGE_WORD ≡ codes "pckg" }
    // The schema of an index.
    ensures index { to_le_bytes w32 INDEX_WORD ≡ codes "indx" }
    // The schema of an installed database.
    ensures database { to_le_bytes w32 IDB_WORD ≡ codes "idb\0" }
    // The schema of an intent (journal entry).
    ensures intent { to_le_bytes w32 INTENT_WORD ≡ codes "intt" }
{}

/// A law: a file that passes every test contains a value with the shape of its table, in which each
/// text and number obeys the rule of its field and no name repeats. If the payload consists of
/// bytes, this value is normal. The body calls the laws that the proof needs.
pub fn sound_containers_hold_sound_values()
    // The root of a sound container has a sound value.
    ensures value { (which : Which) (file : List ℕ)
        → IsSoundContainerExceptContents which file
        → IsSoundValue which (root_value_of_payload which (payload_in file)) }
    // If the payload consists of bytes, this value is normal.
    ensures normal { (which : Which) (file : List ℕ)
        → IsSoundContainerExceptContents which file → All (λ b. b < 256) (payload_in file)
        → IsNormal (root_value_of_payload which (payload_in file)) }
{
    values_of_few_visits_have_no_fault();
    values_have_their_shape();
    values_are_normal();
    no_text_is_bad_where_each_keeps_its_rule();
    no_repeated_name_is_reported_if_there_is_none();
}
