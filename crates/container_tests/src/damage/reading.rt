//! The ways to test a file: by all tests of a container, or by printing its text. Each adds its
//! result as a line. The tests are in `docs/formats.md`, "Tests of a container", and the printed
//! text in "Dump text".

ghost use Rattle.std.specs.Prelude.{◌≡◌, IfOk};
ghost use Rattle.adb_view.specs.ShapedPayload.{table_of};

use crate::damage::tally::{AnswerKind, kind_of};
use crate::package_tree::PackageTree;
use adb_block::Blocks;
use adb_dump::dump;
use adb_schema::{ReadFault, Shaped, Which, shape};
use adb_view::Adb;
use base_core::{Cause, Text, TreeFault};
use package_verifier::{PackageTest, test_package};
use pkg_core::{PackageFault, table_of_schema, verify};
use report_core::{Refusal, write_error};
use row_lines::Bytes;
use std::alloc::{AllocError, Global};
use tree_memory::MemorySink;

/// The ways to test a file.
#[derive(Clone, Copy)]
pub(crate) enum Test {
    /// All tests of a container, on a file in memory.
    Whole,
    /// All tests of a container, as `apk verify` makes them: the file is in a tree, and a package
    /// is read in pieces.
    Pieces,
    /// The file is printed as dump text, as `apk adbdump` does it.
    Dump,
}

impl Test {
    /// Adds the result of this test for the file to `line`, with a line end, and returns the kind
    /// of the result.
    pub(crate) fn read(
        self,
        alloc: Global,
        file: &[u8],
        line: &mut Bytes,
    ) -> Result<AnswerKind, AllocError> {
        let fault = match self {
            Test::Whole => fault_of(alloc, file),
            Test::Pieces => fault_in_pieces(alloc, file),
            Test::Dump => add_dump(alloc, file, line),
        };
        let Some(cause) = fault? else {
            line.push(match self {
                Test::Dump => b"\n",
                _ => b"sound\n",
            });
            return Ok(AnswerKind::Sound);
        };
        add_cause(alloc, cause, line);
        Ok(kind_of(cause))
    }
}

/// Adds the text of a cause, and a line end. It is the text that `apk verify` prints for its first
/// argument, but without `ERROR: word 1: ` before it.
fn add_cause(alloc: Global, cause: Cause, line: &mut Bytes) {
    let mut page = MemorySink::new(alloc);
    match write_error(&Refusal::FileBad { place: 1, cause }, &mut page) {
        Ok(()) => {
            let text = page.bytes();
            line.push(text.strip_prefix(b"ERROR: word 1: ").unwrap_or(text))
        }
        Err(_) => line.push_made(Err(AllocError)),
    }
}

/// The cause of the first failed test of a file in memory, or None if no test fails.
fn fault_of(alloc: Global, file: &[u8]) -> Result<Option<Cause>, AllocError> {
    match verify(alloc, file) {
        Ok(()) => Ok(None),
        Err(PackageFault::Bad(cause)) => Ok(Some(cause)),
        Err(PackageFault::Memory) => Err(AllocError),
    }
}

/// The cause of the first failed test of a file in a tree, or None if no test fails. A package is
/// read in pieces.
fn fault_in_pieces(alloc: Global, file: &[u8]) -> Result<Option<Cause>, AllocError> {
    match test_in_tree(alloc, file) {
        Ok(PackageTest::Sound) => Ok(None),
        Ok(PackageTest::Bad(cause)) => Ok(Some(cause)),
        Ok(PackageTest::OtherSchema) => fault_of(alloc, file),
        // There is no `Absent`, as the tree has the file.
        Ok(PackageTest::Absent) | Err(_) => Err(AllocError),
    }
}

/// Tests a file in a tree as a package.
fn test_in_tree(alloc: Global, file: &[u8]) -> Result<PackageTest, TreeFault> {
    let mut package = PackageTree::new(alloc, file)?;
    test_package(alloc, &mut package.tree, &package.name)
}

/// Adds the dump text of a container to `line`, or returns the cause of its first failed test.
fn add_dump(alloc: Global, file: &[u8], line: &mut Bytes) -> Result<Option<Cause>, AllocError> {
    match text_of(alloc, file) {
        Ok(text) => {
            line.push(text.as_bytes());
            Ok(None)
        }
        Err(ReadFault::Bad(cause)) => Ok(Some(cause)),
        Err(ReadFault::Memory) => Err(AllocError),
    }
}

/// The dump text of a container, or the cause of its first failed test.
fn text_of(alloc: Global, file: &[u8]) -> Result<Text, ReadFault> {
    let mut blocks = Blocks::new(file)?;
    let found = blocks.schema();
    let Some(which) = table_of_schema(found) else {
        return Err(ReadFault::Bad(Cause::WrongSchema { found }));
    };
    let values = values_in(&mut blocks, which)?;
    Ok(dump(alloc, &values)?)
}

/// The values in the first block of a container, or the first failed test. Of the blocks after the
/// first one, the kinds and the lengths in their headers are tested.
fn values_in<'a>(blocks: &mut Blocks<'a>, which: Which) -> Result<Shaped<'a>, ReadFault>
    // The values were tested by the table `which`.
    ensures { IfOk result (λ values. table_of values ≡ which) }
{
    let Some(block) = blocks.next()? else {
        return Err(ReadFault::Memory);
    };
    let values = shape(Adb::new(block.payload)?, which)?;
    // The loop has a bound that is never reached, since no file has so many blocks.
    for _ in 0..u64::MAX {
        if blocks.next()?.is_none() {
            break;
        }
    }
    Ok(values)
}
