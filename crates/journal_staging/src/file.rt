//! `stage_file`, which stages a file of a package, piece by piece. The rules are in
//! `docs/crash-safety.md`, "A change of several files", and of the pieces in `docs/formats.md`,
//! "The other blocks".
ghost use Rattle.std.specs.Prelude.{◌≡◌, ◌<◌, ◌+◌, ◌++◌, ◌∷◌, [], ℕ, false, List, None, length, IsErrOf, OnOk};
ghost use Rattle.base_core.specs.Tree.{TreeState};
ghost use Rattle.base_core.specs.declared.cause.Cause.{Cause};
ghost use Rattle.package_verifier.specs.package_reader.FileReading.{AreAsExpected, HaveBeenReturned, HaveOtherDigest, expected_file_of, remembered_fault};
ghost use Rattle.package_verifier.specs.package_reader.declared.piece.PieceFault.TheVariants.{Bad, Disk as DiskFault};
ghost use Rattle.journal_staging.specs.Reading.{IsReadingIn};
ghost use Rattle.journal_staging.specs.SourceStaging.{StagesSource};
ghost use Rattle.journal_commit.specs.StageRun.{IsRunThatStagedAndBeganFiles};

use base_core::Tree;
use journal_commit::{Stage, append_piece, begin_file, end_file};
use package_verifier::{FilePieces, Piece, PieceFault};

/// Stages a file of a package. Its bytes are read piece by piece into the buffer `piece`, and
/// tested against the size and the digest that the package lists.
///
/// # Errors
///
/// `Bad` if the file does not have its digest any more, or `Disk` if the tree failed.
pub(crate) fn stage_file<T: Tree>(
    stage: &mut Stage,
    tree: &mut T,
    mut file: FilePieces<'_>,
    piece: &mut Piece,
) -> Result<(), PieceFault>
    // No staged file is begun and not yet ended.
    requires closed { stage.old.is_open ≡ false }
    // A write is left whose file is not staged.
    requires more { stage.old.staged < length stage.old.intent.writes }

    // Whatever this call returns, only staged files have changed at each moment. If the tree has
    // the package as it was tested: on Ok the file's bytes are staged, and the only possible error
    // is that of the tree.
    ensures source { StagesSource stage.old stage.new
        (λ files bytes. IsReadingIn files file.entry bytes) DiskFault
        (T.history tree.old) (T.history tree.new) (T.counts tree.old) (T.counts tree.new) result }
    // If no byte of the file was read before: on Ok, whatever the tree has returned for the
    // package, bytes with the size and the digest that the package lists are staged.
    ensures listed { HaveBeenReturned file.entry [] → (contents : List (List ℕ)) (v : TreeState)
        (first : List TreeState)
        → IsRunThatStagedAndBeganFiles stage.old contents None v first (T.history tree.old)
        → OnOk result ((bytes : List ℕ) × AreAsExpected (expected_file_of file.entry) bytes
        × IsRunThatStagedAndBeganFiles stage.new (contents
        ++ bytes ∷ []) None v first (T.history tree.new)) }
    // If no byte of the file was read before, and no test has failed before: the error `Bad` is
    // returned only for bytes that have the listed size and another digest.
    ensures bad { HaveBeenReturned file.entry [] → remembered_fault file.entry ≡ None
        → (cause : Cause)
        → IsErrOf result (Bad cause)
        → (bytes : List ℕ) × HaveOtherDigest (expected_file_of file.entry) bytes cause }
{
    // Each piece is appended to the staged file as soon as it is read.
    begin_file(stage, tree)?;
    'pieces: while file.next_piece(tree, piece)? {
        append_piece(stage, tree, piece.bytes())?;
    }
    end_file(stage, tree)?;
    Ok(())
}
