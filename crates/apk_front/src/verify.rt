//! `verify` tests containers. The rules are in `docs/commands.md`, "`verify FILE..`", and the tests
//! in `docs/formats.md`, "Tests of a container".
ghost use Rattle.std.specs.Prelude.{◌≡◌, IsTrue, IfOk};
ghost use Rattle.apk_front.specs.RunContracts.{IsFileTest, IsReadingRun};
ghost use Rattle.apk_front.specs.Verdicts.{as_outcome};
ghost use Rattle.base_core.specs.Calls.{IfObservable};
ghost use Rattle.base_core.specs.Files.{Files};
ghost use Rattle.base_core.specs.Read.{OnlyReads, bytes_in};
ghost use Rattle.base_core.specs.Tree.{files_of};
ghost use Rattle.command_core.specs.Named.{are_files};
ghost use Rattle.make_core.specs.make_info.Reads.{Reads};
ghost use Rattle.outcome.specs.Commands.{reads_in};
ghost use Rattle.outcome.specs.Outcome.{just_report_unless_refusal};
ghost use Rattle.outcome.specs.Verify.{file_refusal, sound_lines, verify, verify_refusal_from_read_number};

use crate::answer::Verdict;
use base_core::{Name, Text, Tree, TreeFault, consecutive_reads_compose, read_all};
use command_core::Operands;
use engine_core::{PackageTest, test_package};
use pkg_core::PackageFault;
use report_core::Refusal;
use std::alloc::{AllocError, Global};

/// The verdict of `verify`: tests the files that the operands name, one after another, up to the
/// first that is no sound container. On a tree that is not observable, it is that of some bytes.
pub(crate) fn verify<T: Tree>(
    alloc: Global,
    operands: &Operands,
    tree: &mut T,
) -> Result<Verdict, TreeFault>
    // The text of each operand is a valid name of a file.
    requires { IsTrue (are_files operands.now) }
    // The verdict is that of the specification, and the tree is only read.
    ensures { IsReadingRun (λ read files. verify read files operands.now)
        (T.history tree.old) (T.history tree.new) (T.counts tree.old) (T.counts tree.new) result }
{
    let refusal = first_refusal(alloc, operands, tree)?;
    let verdict = verdict_by(alloc, operands, refusal)?;
    Ok(verdict)
}

// The verdict with the refusal of the first bad file, or, without one, with a line for each
// operand.
fn verdict_by(
    alloc: Global,
    operands: &Operands,
    refusal: Option<Refusal>,
) -> Result<Verdict, AllocError>
    // The text of each operand is a valid name of a file.
    requires { IsTrue (are_files operands.now) }
    // The verdict is that of this outcome, whatever the files are.
    ensures { IfOk result (λ verdict. (files : Files)
        → as_outcome files verdict
        ≡ just_report_unless_refusal files refusal (sound_lines operands.now)) }
{
    match refusal {
        Some(refusal) => Ok(Verdict::refused(alloc, refusal)),
        None => Ok(Verdict::reported(lines(alloc, operands)?)),
    }
}

// The refusal of the first operand whose file is no sound container. The memory for a file is freed
// before the next one is read.
fn first_refusal<T: Tree>(
    alloc: Global,
    operands: &Operands,
    tree: &mut T,
) -> Result<Option<Refusal>, TreeFault>
    // The text of each operand is a valid name of a file.
    requires { IsTrue (are_files operands.now) }
    // On an observable tree the result is the first refusal of the tree's files, if there is one.
    ensures found { IfOk result (λ refusal. IfObservable (T.history tree.old) (λ v.
        refusal ≡ verify_refusal_from_read_number (reads_in (files_of v)) 0 operands.now)) }
    // On every tree the result is the first refusal of some bytes, or no file, at each read.
    ensures by_reads { IfOk result (λ refusal. (read : Reads)
        × (refusal ≡ verify_refusal_from_read_number read 0 operands.now)) }
    // The tree is only read; an I/O error has its cause there.
    ensures tree { OnlyReads TreeFault.Disk (T.history tree.old) (T.history tree.new)
        (T.counts tree.old) (T.counts tree.new) result }
{
    for i in 0..operands.len() {
        let place = operands.get(i).place;
        let refusal = test_file(alloc, place, operands.file(i), tree)?;
        if refusal.is_some() {
            return Ok(refusal);
        }
    }
    Ok(None)
}

// Tests the file that the argument at this place of the command line names. A package is read in
// pieces, another container as a whole. Returns the refusal, if the file fails a test.
fn test_file<T: Tree>(
    alloc: Global,
    place: u32,
    file: &Name,
    tree: &mut T,
) -> Result<Option<Refusal>, TreeFault>
    // The refusal is that of the tree's file, or of some bytes, and the tree is only read.
    ensures { IsFileTest place file.now
        (T.history tree.old) (T.history tree.new) (T.counts tree.old) (T.counts tree.new) result }
{
    // A law that the proof needs; it has no effect at run time.
    consecutive_reads_compose::<PackageTest, Option<Refusal>, TreeFault>();
    match test_package(alloc, tree, file)? {
        PackageTest::Absent => Ok(Some(Refusal::FileMissing { place })),
        PackageTest::OtherSchema => test_whole(alloc, place, file, tree),
        PackageTest::Sound => Ok(None),
        PackageTest::Bad(cause) => Ok(Some(Refusal::FileBad { place, cause })),
    }
}

// Reads the whole file that the argument at this place names, and tests it. Returns the refusal, if
// the file fails a test.
fn test_whole<T: Tree>(
    alloc: Global,
    place: u32,
    file: &Name,
    tree: &mut T,
) -> Result<Option<Refusal>, TreeFault>
    // The refusal is that of the tree's file, or of some bytes, and the tree is only read.
    ensures { IsFileTest place file.now
        (T.history tree.old) (T.history tree.new) (T.counts tree.old) (T.counts tree.new) result }
{
    let found = read_all(alloc, tree, file)?;
    let refusal = refusal_of(alloc, place, &found)?;
    Ok(refusal)
}

// The refusal of what was found for the argument at this place: a missing file, or bytes that are
// no sound container.
fn refusal_of(
    alloc: Global,
    place: u32,
    found: &Option<Vec<u8>>,
) -> Result<Option<Refusal>, AllocError>
    ensures { IfOk result (λ refusal. refusal ≡ file_refusal place (bytes_in found.now)) }
{
    let Some(bytes) = found else {
        return Ok(Some(Refusal::FileMissing { place }));
    };
    match pkg_core::verify(alloc, bytes) {
        Ok(()) => Ok(None),
        Err(PackageFault::Bad(cause)) => Ok(Some(Refusal::FileBad { place, cause })),
        Err(PackageFault::Memory) => Err(AllocError),
    }
}

// The report if all files are sound: a line `FILE: OK` for each operand.
fn lines(alloc: Global, operands: &Operands) -> Result<Text, AllocError>
    // The text of each operand is a valid name of a file.
    requires { IsTrue (are_files operands.now) }
    ensures { IfOk result (λ report. report ≡ sound_lines operands.now) }
{
    let mut report = Vec::new(alloc);
    for i in 0..operands.len() {
        report.extend_from_slice(operands.file(i).as_bytes())?;
        report.extend_from_slice(b": OK\n")?;
    }
    Ok(Text::from_vec(report))
}
