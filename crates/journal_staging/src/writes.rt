//! The writes of a change and the sources of their bytes, the calls that stage the file of one
//! write, and why a change is not carried through. The rules are in `docs/commands.md`, "What a
//! change does with files", and in `docs/crash-safety.md`, "A change of several files".

ghost use Rattle.std.specs.Prelude.{◌≡◌, ◌<◌, ◌+◌, ◌++◌, ◌∷◌, [], ℕ, false, List, None, length, IsErrOf, OnOk};
ghost use Rattle.base_core.specs.Tree.{TreeState};
ghost use Rattle.base_core.specs.declared.cause.Cause.{Cause};
ghost use Rattle.journal_staging.specs.SourceStaging.{StagesSource};
ghost use Rattle.journal_staging.specs.Sources.{AreListedContentsOf, IsFileSource, MayDenote, DenotesBytes};
ghost use Rattle.journal_staging.specs.Spoiled.{IsSpoiledAt, IsSpoiledForEachTested};
ghost use Rattle.journal_staging.specs.declared.writes.StageFault.TheVariants.{Bad, Disk as DiskFault};
ghost use Rattle.journal_commit.specs.StageRun.{IsRunThatStagedAndBeganFiles};

use crate::file::stage_file;
use base_core::{Cause, Disk, Name, Tree};
use file_guard::{LINK_MARK, link_text_of_target};
use journal_commit::{Stage, stage_bytes, stage_pieces};
use package_verifier::{Piece, PieceFault, TestedPackage};

/// Stages a file of a package, whose bytes are read once more. The clauses are those of
/// `stage_write`.
///
/// # Errors
///
/// `Bad` if the file does not have its digest any more, or `Disk` if the tree failed.
fn stage_packaged<T: Tree>(
    stage: &mut Stage,
    tree: &mut T,
    f: &PackagedFile<'_>,
    piece: &mut Piece,
) -> Result<(), StageFault>
    // No staged file is begun and not yet ended.
    requires closed { stage.old.is_open ≡ false }
    // A write is left whose file is not staged.
    requires more { stage.old.staged < length stage.old.intent.writes }
    // Whatever is returned, only staged files have changed at each moment. If the tree has the
    // package as it was tested: on Ok the file's bytes are staged, and the only possible error is
    // that of the tree.
    ensures source { StagesSource stage.old stage.new
        (λ files bytes. IsFileSource files f.now bytes) DiskFault
        (T.history tree.old) (T.history tree.new) (T.counts tree.old) (T.counts tree.new) result }
    // On Ok, whatever the tree has returned, bytes with the size and the digest that the package
    // lists for the file are staged, after the files staged before (`contents`).
    ensures listed { (contents : List (List ℕ)) (v : TreeState) (first : List TreeState)
        → IsRunThatStagedAndBeganFiles stage.old contents None v first (T.history tree.old)
        → OnOk result ((bytes : List ℕ) × AreListedContentsOf f.now bytes
        × IsRunThatStagedAndBeganFiles stage.new (contents
        ++ bytes ∷ []) None v first (T.history tree.new)) }
    // If the error is `Bad`, it reports the package's member, and a cause with which a file that
    // has the values of the tested one is spoiled.
    ensures bad { (member : ℕ) (cause : Cause) → IsErrOf result (Bad member cause)
        → (f.now.member ≡ member) × IsSpoiledForEachTested f.now cause }
{
    let file = f.package.file(f.folder, f.file);
    match stage_file(stage, tree, file, piece) {
        Ok(()) => Ok(()),
        Err(PieceFault::Bad(cause)) => Err(StageFault::Bad {
            member: f.member,
            cause,
        }),
        Err(PieceFault::Disk) => Err(StageFault::Disk),
    }
}

/// Stages the file of one write, whose bytes come from this source.
///
/// # Errors
///
/// `Bad` if a file of a package does not have its digest any more, or `Disk` if the tree failed.
pub(crate) fn stage_write<T: Tree>(
    stage: &mut Stage,
    tree: &mut T,
    source: &Source<'_>,
    piece: &mut Piece,
) -> Result<(), StageFault>
    // No staged file is begun and not yet ended.
    requires closed { stage.old.is_open ≡ false }
    // A write is left whose file is not staged.
    requires more { stage.old.staged < length stage.old.intent.writes }
    // Whatever is returned, only staged files have changed at each moment. If the source denotes
    // bytes: on Ok these are staged, and the only possible error is that of the tree.
    ensures source { StagesSource stage.old stage.new
        (λ files bytes. DenotesBytes files source.now bytes) DiskFault
        (T.history tree.old) (T.history tree.new) (T.counts tree.old) (T.counts tree.new) result }
    // On Ok, whatever the tree has returned, bytes that the source may denote are staged, after the
    // files staged before (`contents`).
    ensures listed { (contents : List (List ℕ)) (v : TreeState) (first : List TreeState)
        → IsRunThatStagedAndBeganFiles stage.old contents None v first (T.history tree.old)
        → OnOk result ((bytes : List ℕ) × MayDenote source.now bytes
        × IsRunThatStagedAndBeganFiles stage.new (contents
        ++ bytes ∷ []) None v first (T.history tree.new)) }
    // If the error is `Bad`, the source is a file of the package of this member, and the package's
    // file is spoiled with this cause.
    ensures bad { (member : ℕ) (cause : Cause) → IsErrOf result (Bad member cause)
        → IsSpoiledAt member cause source.now }
{
    match source {
        Source::Bytes(bytes) => Ok(stage_bytes(stage, tree, bytes)?),
        Source::Link(target) => Ok(stage_pieces(
            stage,
            tree,
            LINK_MARK,
            link_text_of_target(target),
        )?),
        Source::File(f) => stage_packaged(stage, tree, f, piece),
    }
}

/// A file of a package that was tested.
#[derive(Clone, Copy)]
pub struct PackagedFile<'a> {
    /// The package, as it was tested.
    pub package: &'a TestedPackage,
    /// The index of the package's member among the members after the change.
    pub member: u32,
    /// The position of the folder in the package, counted from 1.
    pub folder: u32,
    /// The position of the file in the folder, counted from 1.
    pub file: u32,
}

/// The source of a write's bytes.
#[derive(Clone, Copy)]
pub enum Source<'a> {
    /// The bytes are given: those of the database or of world.
    Bytes(&'a [u8]),
    /// A symbolic link, written as a file with the link's text. The given bytes are its target as
    /// the package stores it: two bytes for the file type, and then the text.
    Link(&'a [u8]),
    /// The bytes are read from a package.
    File(PackagedFile<'a>),
}

/// A write of a change: a name, and the source of its bytes.
#[derive(Clone, Copy)]
pub struct StagedWrite<'a> {
    /// The name of the file after the change.
    pub name: &'a Name,
    /// The source of the file's bytes.
    pub source: Source<'a>,
}

/// Why a change is not carried through.
#[derive(Clone, Copy, Debug, PartialEq, Eq, Drop)]
pub enum StageFault {
    /// A file of a package does not have the listed digest any more. `member` is the index of the
    /// package among the members after the change. Nothing is published yet.
    Bad { member: u32, cause: Cause },
    /// An I/O error of the tree.
    Disk,
}

impl From<Disk> for StageFault {
    ghost use Rattle.std.specs.Prelude.{◌≡◌};
    ghost use Rattle.journal_staging.specs.declared.writes.StageFault.TheVariants.{Disk as DiskFault};

    // The result of the conversion: the I/O error of a change.
    ghost from_gives = { λ _ fault. fault ≡ DiskFault };

    // A failed call of the tree as the reason why a change is not carried through.
    fn from(_: Disk) -> StageFault {
        StageFault::Disk
    }
}
