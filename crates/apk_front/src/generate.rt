//! `adbgen` turns a dump text into a container. The rules are in `docs/commands.md`, "`adbgen
//! FILE`", and in `docs/formats.md`, "Dump text"; the container is made by `gen_core`.
ghost use Rattle.std.specs.Prelude.{◌≡◌, IsTrue, IfOk, length};
ghost use Rattle.apk_front.specs.RunContracts.{IsReadingRun};
ghost use Rattle.apk_front.specs.Verdicts.{as_outcome};
ghost use Rattle.base_core.specs.Files.{Files};
ghost use Rattle.base_core.specs.Read.{bytes_in};
ghost use Rattle.command_core.specs.Named.{are_files};
ghost use Rattle.outcome.specs.Generate.{adbgen, generate_outcome};

use crate::answer::Verdict;
use base_core::{Text, Tree, TreeFault, read_all};
use command_core::Operands;
use gen_core::{GenFault, gen_};
use report_core::Refusal;
use std::alloc::{AllocError, Global};

/// The verdict of `adbgen`: the container that is made of the dump text in the file that the one
/// operand names, or a refusal. On a tree that is not observable it is that of some bytes.
pub(crate) fn adbgen<T: Tree>(
    alloc: Global,
    operands: &Operands,
    tree: &mut T,
) -> Result<Verdict, TreeFault>
    // There is exactly one operand.
    requires one { length operands.now ≡ 1 }
    // The text of the operand is a valid name of a file.
    requires files { IsTrue (are_files operands.now) }
    // The verdict is that of the specification, and the tree is only read.
    ensures { IsReadingRun (λ read files. adbgen read files operands.now)
        (T.history tree.old) (T.history tree.new) (T.counts tree.old) (T.counts tree.new) result }
{
    let place = operands.get(0).place;
    let found = read_all(alloc, tree, operands.file(0))?;
    let verdict = verdict_of(alloc, place, &found)?;
    Ok(verdict)
}

// The verdict on the text that was found for the operand at this place of the command line: the
// container that is made of the text, or a refusal.
fn verdict_of(alloc: Global, place: u32, found: &Option<Vec<u8>>) -> Result<Verdict, AllocError>
    // The verdict is that of the definition, whatever the files are.
    ensures { IfOk result (λ verdict. (files : Files)
        → as_outcome files verdict ≡ generate_outcome files place (bytes_in found.now)) }
{
    let Some(text) = found else {
        return Ok(Verdict::refused(alloc, Refusal::FileMissing { place }));
    };
    match gen_(alloc, text) {
        Ok(file) => Ok(Verdict::reported(Text::from_vec(file))),
        Err(GenFault::Bad { line }) => {
            Ok(Verdict::refused(alloc, Refusal::TextBad { place, line }))
        }
        Err(GenFault::TooLarge { bytes, values }) => {
            Ok(Verdict::refused(alloc, Refusal::ResultTooLarge { bytes, values }))
        }
        Err(GenFault::Memory) => Err(AllocError),
    }
}
