//! The contents of a package's files are read once and tested, piece by piece. The rules are in
//! `docs/formats.md`, "The other blocks", point 2 of the last list (the pieces).

ghost use Rattle.std.specs.Prelude.{◌≡◌, ℕ, List, Some, length, IfOk};
ghost use Rattle.adb_block.specs.Reading.{block_stream_from};
ghost use Rattle.base_core.specs.declared.tree.TreeFault.TheVariants.{Disk as DiskFault};
ghost use Rattle.package_verifier.specs.Places.{AreFilesTested};
ghost use Rattle.package_reader.specs.pkg_core.Contents.{expected_files_of_package, files_read_from_blocks};
ghost use Rattle.package_reader.specs.pkg_core.Front.{position_after_front, front_end, front_file_len};
ghost use Rattle.package_reader.specs.pkg_core.Seen.{HasBytesAtOffset, IsSeenIn, ReadsFile};
ghost use Rattle.package_reader.specs.pkg_core.Values.{value_of_contents};

use crate::places::{FilePlace, keep_place};
use base_core::{Cause, Name, Tree, TreeFault};
use package_reader::{
    Contents, Front, Piece, PieceFault, PieceReader,
    the_pieces_are_refused_for_the_first_fault_of_the_blocks,
    the_pieces_of_each_file_joined_are_its_contents,
};
use std::alloc::Global;

/// The result of the tests of a package's files.
#[derive(Drop)]
pub(crate) enum FilesTest {
    /// No test failed: the places at which the contents of each file begin, in the order of the
    /// files.
    Sound(Vec<FilePlace>),
    /// The first test that failed.
    Bad(Cause),
}

/// Reads and tests the blocks after the values of a package.
pub(crate) fn read_files<T: Tree>(
    alloc: Global,
    tree: &mut T,
    name: &Name,
    front: &Front,
    contents: &Contents<'_>,
) -> Result<FilesTest, TreeFault>
    // For each package of this length that has the bytes read from the end of the front on
    // (`seen`): the result is that of the tests of its files.
    ensures files { IfOk result (λ test. (seen : List ℕ)
        × IsSeenIn (T.history tree.old) name.now (front_file_len front.now) (front_end front.now)
        seen
        × ((pkg : List ℕ) → length pkg ≡ front_file_len front.now
        → HasBytesAtOffset pkg (front_end front.now) seen → AreFilesTested (files_read_from_blocks
        (expected_files_of_package (value_of_contents contents.now))
        (block_stream_from (position_after_front front.now pkg))) pkg test)) }
    // The tree is unchanged. `Disk` is returned only if the tree failed, and no call is a misuse if
    // the tree has a file of this length under the name.
    ensures tree { ReadsFile name.now (front_file_len front.now) DiskFault (T.history tree.old)
        (T.history tree.new) (T.counts tree.old) (T.counts tree.new) result }
{
    // Laws that the proof needs; they have no effect at run time.
    the_pieces_are_refused_for_the_first_fault_of_the_blocks();
    the_pieces_of_each_file_joined_are_its_contents();
    let mut reader = PieceReader::new(front, contents, name);
    let mut piece = Piece::new();
    let mut places = Vec::new(alloc);
    'pieces: loop {
        match reader.next_piece(tree, &mut piece) {
            Ok(Some(part)) => keep_place(&mut places, part, reader.file_start())?,
            Ok(None) => return Ok(FilesTest::Sound(places)),
            Err(PieceFault::Bad(cause)) => return Ok(FilesTest::Bad(cause)),
            Err(PieceFault::Disk) => return Err(TreeFault::Disk),
        }
    }
}
