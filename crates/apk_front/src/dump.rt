//! `adbdump` prints a container as text. The rules are in `docs/commands.md`, "`adbdump FILE`" (the
//! tests and their order), and in `docs/formats.md`, "Dump text".
ghost use Rattle.std.specs.Prelude.{◌≡◌, None, Ok, IsTrue, IfOk, IfErr, is_some, length};
ghost use Rattle.std.specs.Result.{result_err};
ghost use Rattle.adb_block.specs.Reading.{block_stream_from};
ghost use Rattle.adb_view.specs.ShapedPayload.{adb_of, table_of};
ghost use Rattle.adb_dump.specs.adb_schema.Soundness.{header_schema_if_root_table};
ghost use Rattle.adb_view.specs.Adb.{payload_of};
ghost use Rattle.apk_front.specs.Containers.{IsDumpFault, IsAfterShapedFirstBlock, first_block_head_or_shape_fault};
ghost use Rattle.apk_front.specs.RunContracts.{IsReadingRun};
ghost use Rattle.apk_front.specs.Verdicts.{as_outcome};
ghost use Rattle.base_core.specs.Files.{Files};
ghost use Rattle.base_core.specs.Read.{bytes_in};
ghost use Rattle.command_core.specs.Named.{are_files};
ghost use Rattle.outcome.specs.Dump.{adbdump, dump_of, dump_of_first_block_unless_fault_of_blocks, dump_outcome, payload_head_or_shape_fault, framing_fault_of_blocks};

use crate::answer::Verdict;
use adb_block::Blocks;
use adb_dump::{ReadFault, Shaped, Which, dump, shape};
use adb_view::Adb;
use base_core::{Cause, Text, Tree, TreeFault, read_all};
use command_core::Operands;
use pkg_core::table_of_schema;
use report_core::Refusal;
use std::alloc::{AllocError, Global};

/// The verdict of `adbdump`: the dump text of the file that the one operand names, or a refusal. On
/// a tree that is not observable it is proved only that the text is that of some bytes.
pub(crate) fn adbdump<T: Tree>(
    alloc: Global,
    operands: &Operands,
    tree: &mut T,
) -> Result<Verdict, TreeFault>
    // There is exactly one operand.
    requires one { length operands.now ≡ 1 }
    // The text of the operand is a valid name of a file.
    requires files { IsTrue (are_files operands.now) }
    // The verdict is that of the specification, and the tree is only read.
    ensures { IsReadingRun (λ read files. adbdump read files operands.now)
        (T.history tree.old) (T.history tree.new) (T.counts tree.old) (T.counts tree.new) result }
{
    let place = operands.get(0).place;
    let found = read_all(alloc, tree, operands.file(0))?;
    let verdict = verdict_of(alloc, place, &found)?;
    Ok(verdict)
}

// The verdict on the file that was found for the operand at this place of the command line: its
// dump text, or a refusal.
fn verdict_of(alloc: Global, place: u32, found: &Option<Vec<u8>>) -> Result<Verdict, AllocError>
    // The verdict is that of the definition, whatever the files are.
    ensures { IfOk result (λ verdict. (files : Files)
        → as_outcome files verdict ≡ dump_outcome files place (bytes_in found.now)) }
{
    let Some(bytes) = found else {
        return Ok(Verdict::refused(alloc, Refusal::FileMissing { place }));
    };
    match text_of(alloc, bytes) {
        Ok(text) => Ok(Verdict::reported(text)),
        Err(ReadFault::Bad(cause)) => {
            Ok(Verdict::refused(alloc, Refusal::FileBad { place, cause }))
        }
        Err(ReadFault::Memory) => Err(AllocError),
    }
}

// The dump text of a container of any of the four schemas, or the first test that the container
// fails.
#[tactic(auto, unfolding(outcome::specs::Dump::dump_of), using(crate::proofs::Dumping::root_known, crate::proofs::Dumping::dump_is))]
fn text_of(alloc: Global, bytes: &[u8]) -> Result<Text, ReadFault>
    // The text is the one that the definition gives for these bytes.
    ensures ok { IfOk result (λ text. dump_of bytes.now ≡ Ok text) }
    // The fault is that of the definition, or out of memory.
    ensures bad { IfErr result (λ fault. IsDumpFault fault (dump_of bytes.now)) }
{
    let mut blocks = Blocks::new(bytes)?;
    let found = blocks.schema();
    match table_of_schema(found) {
        Some(which) => text_of_blocks(alloc, &mut blocks, which),
        None => Err(ReadFault::Bad(Cause::WrongSchema { found })),
    }
}

// The dump text of the blocks of a file, whose root object has the fields of the table `which`; or
// the first test that the blocks fail.
#[tactic(auto, using(crate::proofs::Dumping::text_of_shaped, crate::proofs::Dumping::first_block_bad, crate::proofs::Dumping::later_block_bad))]
fn text_of_blocks(alloc: Global, blocks: &mut Blocks<'_>, which: Which) -> Result<Text, ReadFault>
    // No block was read yet.
    requires first { blocks.old.last ≡ None }
    // The table is one that may be at a root.
    requires root { IsTrue (is_some (header_schema_if_root_table which)) }
    // The text is the one that the definition gives for these blocks.
    ensures ok { IfOk result (λ text. dump_of_first_block_unless_fault_of_blocks which
        (block_stream_from blocks.old)
        ≡ Ok text) }
    // The fault is that of the definition, or out of memory.
    ensures bad { IfErr result (λ fault.
        IsDumpFault fault (dump_of_first_block_unless_fault_of_blocks which
        (block_stream_from blocks.old))) }
{
    let shaped = shape_first(blocks, which)?;
    check_framing(blocks)?;
    let text = dump(alloc, &shaped)?;
    Ok(text)
}

// Tests the first block: its framing (kind and lengths), the head of its payload, and the shape of
// its values. Returns the payload as a value whose shape was tested.
fn shape_first<'a>(blocks: &mut Blocks<'a>, which: Which) -> Result<Shaped<'a>, Cause>
    // No block was read yet.
    requires { blocks.old.last ≡ None }
    // The returned cause is the first fault of the first block.
    ensures bad { IfErr result (λ cause.
        first_block_head_or_shape_fault which (block_stream_from blocks.old) ≡ Some cause) }
    // The values were tested by the table `which`.
    ensures table { IfOk result (λ shaped. table_of shaped ≡ which) }
    // The result is the payload of the first block, and the reader is then after this block.
    ensures behind { IfOk result (λ shaped. IsAfterShapedFirstBlock which (payload_of
        (adb_of shaped))
        (block_stream_from blocks.old) (block_stream_from blocks.new)) }
{
    match blocks.next()? {
        Some(block) => shape_payload(block.payload, which),
        // A reader of blocks always gives a first block, or a fault.
        None => unreachable!(),
    }
}

// Tests the head of a payload, and the shape of its values by the table `which`.
fn shape_payload<'a>(payload: &'a [u8], which: Which) -> Result<Shaped<'a>, Cause>
    // The error is exactly the first fault; without a fault there is no error.
    ensures exact { result_err result ≡ payload_head_or_shape_fault which payload.entry.now }
    // The values were tested by the table `which`.
    ensures table { IfOk result (λ shaped. table_of shaped ≡ which) }
    // The shaped payload is this payload, not a copy.
    ensures lent { IfOk result (λ shaped. payload_of (adb_of shaped) ≡ payload.entry.now) }
{
    let adb = Adb::new(payload)?;
    shape(adb, which)
}

// Tests the block headers (kind and lengths) of the blocks after the first one.
fn check_framing(blocks: &mut Blocks<'_>) -> Result<(), Cause>
    ensures { result_err result ≡ framing_fault_of_blocks (block_stream_from blocks.old) }
{
    while blocks.next()?.is_some() {}
    Ok(())
}
