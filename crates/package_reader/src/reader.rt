//! A reader of the pieces of a package's files in order. The rules are in `docs/formats.md`, "The
//! other blocks", point 2 of the last list; the order of the files in the second paragraph.

ghost use Rattle.std.specs.Option.{ForSome};
ghost use Rattle.std.specs.Prelude.{◌≤◌, ◌≡◌, List};
ghost use Rattle.package_reader.specs.Opened.{open_file_end};
ghost use Rattle.adb_block.specs.Reading.{Reading};
ghost use Rattle.pkg_core.specs.Contents.{ExpectedFile, contents_fault};
ghost use Rattle.pkg_core.specs.Pieces.{pieces_read_from_blocks, refusal_of_pieces};

use crate::block::next_file;
use crate::open::OpenFile;
use crate::piece::{Piece, PieceFault};
use adb_block::BlockKind;
use base_core::{Cause, Name, Tree};
use pkg_core::{BlockPlace, Contents, Front, Part, Walk};

/// What a reader still has to read.
#[derive(Clone, Copy)]
pub(crate) enum Due {
    /// The pieces of the files that are left.
    Files,
    /// Nothing: the last block was passed.
    Nothing,
    /// Nothing: this test failed, and each later call returns it.
    Refused(Cause),
}

/// A reader of the contents of a package's files in pieces, block by block in the order of the
/// package. It allocates no memory. Contracts see, by `Readers` of `specs/`, the pieces of a
/// package that are still to be read, the offset of the next read, and the offset at which the file
/// of the last piece begins.
#[derive(Drop)]
pub struct PieceReader<'a> {
    /// The name of the package.
    pub(crate) name: &'a Name,
    /// The position of the reader in the blocks: after the block of the open file, or at the next
    /// block if no file is open.
    pub(crate) place: BlockPlace<'a>,
    /// The file of which some pieces, but not all, were read; None if the reader is between two
    /// files.
    pub(crate) opened: Option<OpenFile<'a>>,
    /// The offset at which the file of the last piece begins.
    pub(crate) start: u64,
    /// Whether files are left, the last block was passed, or a test failed.
    pub(crate) due: Due,
    // The place is within the package.
    ghost within: { place.at ≤ place.len },
    // The open file does not end after the place.
    ghost behind: { open_file_end opened ≤ place.at },
    // The open file's next byte is not before its start.
    ghost begun: { ForSome opened (λ file. start ≤ file.at) },
}

impl<'a> PieceReader<'a> {
    ghost use Rattle.std.specs.Prelude.{◌≡◌, ◌≤◌, ◌+◌, ℕ, List, None, false, is_none, length, IfErr, IfOk, IfSome};
    ghost use Rattle.adb_block.specs.Reading.{block_stream_from};
    ghost use Rattle.pkg_core.specs.Contents.{expected_files_of_package};
    ghost use Rattle.pkg_core.specs.Opened.{files_left_in_walk};
    ghost use Rattle.pkg_core.specs.Pieces.{PiecesRead, pieces_read_from_blocks};
    ghost use Rattle.pkg_core.specs.Taking.{file_bytes_left};
    ghost use Rattle.pkg_core.specs.Front.{position_after_front, front_end, front_file_len};
    ghost use Rattle.pkg_core.specs.Seen.{HasBytesAtOffset, IsSeenIn, ReadsFile};
    ghost use Rattle.pkg_core.specs.Values.{value_of_contents};
    ghost use Rattle.package_reader.specs.Readers.{ReturnsNextPiece, ArePiecesFrom, IsReturnedInOrder, CanContinueAfter, RemembersFault, IsFileOpened, CanContinue, IsPieceRead, IsReading, IsStartOf, KeepsFileStart, OpensFirstOrNoneExpected, HasPieceAt, IsBetweenFiles, files_to_read, files_to_read_in, name_in_tree, offset_of, package_len, start_of_file};
    ghost use Rattle.package_reader.specs.declared.reader.Due.TheVariants.{Files};
    ghost use Rattle.package_reader.specs.declared.piece.PieceFault.TheVariants.{Disk as DiskFault};

    /// A reader before the first piece of the package of this name, whose front and values were
    /// read.
    pub fn new(front: &Front, contents: &Contents<'a>, name: &'a Name) -> PieceReader<'a>
        // The reader reads the package of the given name.
        ensures name { name_in_tree result ≡ name.entry.now }
        // The package has the length of the front's file.
        ensures len { package_len result ≡ front_file_len front.now }
        // The first read is after the first block.
        ensures offset { offset_of result ≡ front_end front.now }
        // Each file with contents is still to be read.
        ensures files { files_to_read result
            ≡ expected_files_of_package (value_of_contents contents.entry.now) }
        // The reader can continue, and no file is open.
        ensures start { IsBetweenFiles result }
        // The pieces to read are those of the blocks after the front.
        ensures pieces { (pkg : List ℕ) → IsReading result pkg
            (pieces_read_from_blocks (expected_files_of_package
            (value_of_contents contents.entry.now))
            (block_stream_from (position_after_front front.now pkg))) }
    {
        let place = BlockPlace {
            len: front.file_len(),
            walk: Walk::new(contents.view().paths()),
            last: BlockKind::Adb,
            at: front.end(),
        };
        PieceReader::in_front_of(name, place)
    }

    /// A reader in front of the block at a place.
    pub(crate) fn in_front_of(name: &'a Name, place: BlockPlace<'a>) -> PieceReader<'a>
        // The place is within the package.
        requires { place.at ≤ place.len }
        // The reader reads the package of the given name.
        ensures name { name_in_tree result ≡ name.entry.now }
        // The reader is at the given place.
        ensures place { result.place ≡ place.entry }
        // No file is open.
        ensures opened { result.opened ≡ None }
        // No test failed, and the last block was not passed.
        ensures due { result.due ≡ Files }
    {
        PieceReader {
            name,
            place,
            opened: None,
            start: 0,
            // No test failed, and the last block was not passed yet.
            due: Due::Files,
        }
    }

    /// The offset at which the file of the last piece begins.
    pub fn file_start(&self) -> u64
        ensures { result ≡ start_of_file self.now }
    {
        self.start
    }

    /// Reads the next piece, and returns which part of which file it is; None exactly after the
    /// last block. The pieces of a file have 65,536 bytes each, and the last one 1 to 65,536. The
    /// tree is unchanged, whatever the result.
    ///
    /// # Errors
    ///
    /// `Bad` with the first failed test, and each later call returns the same. The order and the
    /// size of a file are tested before its first piece, its digest before its last one is
    /// returned. `Disk` if the tree failed; then the reader may only be dropped.
    pub fn next_piece<T: Tree>(
        &mut self,
        tree: &mut T,
        piece: &mut Piece,
    ) -> Result<Option<Part>, PieceFault>
        // The bytes `seen` were read from the old offset on; if a piece is returned, they end at
        // the new offset. For each package of this length that has them there, the result is the
        // next of the pieces that were to be read (`before`).
        ensures piece { (seen : List ℕ)
            × IsSeenIn (T.history tree.old) (name_in_tree self.old) (package_len self.old)
            (offset_of self.old) seen
            × IfOk result (λ found. IfSome found (λ _.
            offset_of self.old + length seen ≡ offset_of self.new))
            × ((pkg : List ℕ) → length pkg ≡ package_len self.old
            → HasBytesAtOffset pkg (offset_of self.old) seen
            → (before : PiecesRead) → IsReading self.old pkg before
            → ReturnsNextPiece (IsReading self.new pkg) before piece.new result
            × IfOk result (λ found. HasPieceAt self.old pkg piece.new found self.new)) }
        // The pieces are in the order of the files in the package; at the end no file is expected.
        ensures order { IfOk result (λ found.
            IsReturnedInOrder (files_to_read self.old) found (files_to_read self.new)) }
        // After a piece the reader can continue.
        ensures goes_on { IfOk result (λ found. IfSome found (λ part.
            CanContinueAfter part self.old self.new)) }
        // A piece that is not the last one is completely before the next read.
        ensures bytes { IfOk result (λ found. IfSome found (λ part. part.last ≡ false
            → offset_of self.old + length piece.new ≤ offset_of self.new)) }
        // If a file was open, the offset at which it begins is unchanged. The bytes returned of the
        // open file grow by the piece; after a last piece they are 0.
        ensures start { IfOk result (λ found. IfSome found (λ part.
            KeepsFileStart part (length piece.new) self.old self.new)) }
        // A failed test is remembered, and each later call returns it.
        ensures refused { IfErr result (λ fault. RemembersFault fault self.new) }
        // The name of the package is unchanged.
        ensures name { name_in_tree self.new ≡ name_in_tree self.old }
        // The length of the package is unchanged.
        ensures len { package_len self.new ≡ package_len self.old }
        // The tree is unchanged. `Disk` is returned only if the tree failed, and no call is a
        // misuse if the tree has a file of this length under the name.
        ensures tree { ReadsFile (name_in_tree self.old) (package_len self.old) DiskFault
            (T.history tree.old) (T.history tree.new) (T.counts tree.old) (T.counts tree.new)
            result }
    {
        match self.due {
            Due::Files => self.read_due(tree, piece),
            Due::Nothing => Ok(None),
            Due::Refused(cause) => Err(PieceFault::Bad(cause)),
        }
    }

    /// Reads the next piece, if files are left, and remembers the end or a failed test for the next
    /// calls. The clauses are those of `next_piece`.
    fn read_due<T: Tree>(
        &mut self,
        tree: &mut T,
        piece: &mut Piece,
    ) -> Result<Option<Part>, PieceFault>
        // No test failed, and the last block was not passed.
        requires { CanContinue self.old }
        // The bytes `seen` were read from the old offset on; they end where the next read begins,
        // if there is one. For each package of this length that has them there, the result is the
        // next of the pieces that were to be read (`before`).
        ensures piece { (seen : List ℕ)
            × IsSeenIn (T.history tree.old) (name_in_tree self.old) (package_len self.old)
            (offset_of self.old) seen
            × IfOk result (λ found. IfSome found (λ _.
            offset_of self.old + length seen ≡ offset_of self.new))
            × ((pkg : List ℕ) → length pkg ≡ package_len self.old
            → HasBytesAtOffset pkg (offset_of self.old) seen
            → (before : PiecesRead) → IsReading self.old pkg before
            → ReturnsNextPiece (IsReading self.new pkg) before piece.new result
            × IfOk result (λ found. HasPieceAt self.old pkg piece.new found self.new)) }
        // The pieces are in the order of the files in the package; at the end no file is expected.
        ensures order { IfOk result (λ found.
            IsReturnedInOrder (files_to_read self.old) found (files_to_read self.new)) }
        // After a piece the reader can continue.
        ensures goes_on { IfOk result (λ found. IfSome found (λ part.
            CanContinueAfter part self.old self.new)) }
        // A piece that is not the last one is completely before the next read.
        ensures bytes { IfOk result (λ found. IfSome found (λ part. part.last ≡ false
            → offset_of self.old + length piece.new ≤ offset_of self.new)) }
        // If a file was open, the offset at which it begins is unchanged. The bytes returned of the
        // open file grow by the piece; after a last piece they are 0.
        ensures start { IfOk result (λ found. IfSome found (λ part.
            KeepsFileStart part (length piece.new) self.old self.new)) }
        // A failed test is remembered for the next call.
        ensures refused { IfErr result (λ fault. RemembersFault fault self.new) }
        // The name of the package is unchanged.
        ensures name { name_in_tree self.new ≡ name_in_tree self.old }
        // The length of the package is unchanged.
        ensures len { package_len self.new ≡ package_len self.old }
        // The tree is unchanged. `Disk` is returned only if the tree failed, and no call is a
        // misuse if the tree has a file of this length under the name.
        ensures tree { ReadsFile (name_in_tree self.old) (package_len self.old) DiskFault
            (T.history tree.old) (T.history tree.new) (T.counts tree.old) (T.counts tree.new)
            result }
    {
        match self.read_next(tree, piece) {
            Ok(Some(part)) => Ok(Some(part)),
            Ok(None) => {
                self.due = Due::Nothing;
                Ok(None)
            }
            Err(PieceFault::Bad(cause)) => {
                self.due = Due::Refused(cause);
                Err(PieceFault::Bad(cause))
            }
            Err(PieceFault::Disk) => Err(PieceFault::Disk),
        }
    }

    /// Reads the next piece of the open file, or of the next one. The clauses are those of
    /// `next_piece`, except that a failed test is not remembered yet.
    fn read_next<T: Tree>(
        &mut self,
        tree: &mut T,
        piece: &mut Piece,
    ) -> Result<Option<Part>, PieceFault>
        // The bytes `seen` were read from the old offset on; they end where the next read begins,
        // if there is one. For each package of this length that has them there, the result is the
        // next of the pieces that were to be read (*IsPieceRead*).
        ensures piece { (seen : List ℕ)
            × IsSeenIn (T.history tree.old) (name_in_tree self.old) (package_len self.old)
            (offset_of self.old) seen
            × IfOk result (λ found. IfSome found (λ _.
            offset_of self.old + length seen ≡ offset_of self.new))
            × ((pkg : List ℕ) → length pkg ≡ package_len self.old
            → HasBytesAtOffset pkg (offset_of self.old) seen
            → (before : PiecesRead) → ArePiecesFrom self.old.place self.old.opened pkg before
            → IsPieceRead self.new pkg before piece.new result
            × IfOk result (λ found. HasPieceAt self.old pkg piece.new found self.new)) }
        // The pieces are in the order of the files in the package; at the end no file is expected.
        ensures order { IfOk result (λ found. IsReturnedInOrder
            (files_to_read_in self.old.place self.old.opened) found (files_to_read_in
            self.new.place self.new.opened)) }
        // A piece that is not the last one is completely before the next read.
        ensures bytes { IfOk result (λ found. IfSome found (λ part. part.last ≡ false
            → offset_of self.old + length piece.new ≤ offset_of self.new)) }
        // If a file was open, the offset at which it begins is unchanged. The bytes returned of the
        // open file grow by the piece; after a last piece they are 0.
        ensures start { IfOk result (λ found. IfSome found (λ part.
            KeepsFileStart part (length piece.new) self.old self.new)) }
        // Whether files are left is not changed here (`due`).
        ensures due { self.new.due ≡ self.old.due }
        // No file is open exactly after a last piece.
        ensures open { IfOk result (λ found. IfSome found (λ part.
            is_none self.new.opened ≡ part.last)) }
        // The name of the package is unchanged.
        ensures name { name_in_tree self.new ≡ name_in_tree self.old }
        // The length of the package is unchanged.
        ensures len { package_len self.new ≡ package_len self.old }
        // The tree is unchanged. `Disk` is returned only if the tree failed, and no call is a
        // misuse if the tree has a file of this length under the name.
        ensures tree { ReadsFile (name_in_tree self.old) (package_len self.old) DiskFault
            (T.history tree.old) (T.history tree.new) (T.counts tree.old) (T.counts tree.new)
            result }
    {
        let Some(file) = self.open_next(tree)? else {
            return Ok(None);
        };
        // The proof needs that the file ends in front of the next block.
        let _end = self.place.at;
        let (part, rest) = file.next_piece(tree, self.name, piece)?;
        self.opened = rest;
        Ok(Some(part))
    }

    /// The file that is open, or the next one; None after the last block.
    fn open_next<T: Tree>(&mut self, tree: &mut T) -> Result<Option<OpenFile<'a>>, PieceFault>
        // The bytes `seen` were read from the old offset on; they end where the next read begins,
        // if there is one. For each package of this length that has them there, the result is the
        // file of the next piece, or None if no piece is left (*IsFileOpened*).
        ensures file { (seen : List ℕ)
            × IsSeenIn (T.history tree.old) (name_in_tree self.old) (package_len self.old)
            (offset_of self.old) seen
            × IfOk result (λ found. IfSome found (λ file.
            offset_of self.old + length seen ≡ file.at))
            × ((pkg : List ℕ) → length pkg ≡ package_len self.old
            → HasBytesAtOffset pkg (offset_of self.old) seen
            → (before : PiecesRead) → ArePiecesFrom self.old.place self.old.opened pkg before
            → IsFileOpened self.old pkg before result self.new) }
        // The returned file is the first expected one; if none is returned, no file is expected.
        ensures opens { IfOk result (λ found.
            OpensFirstOrNoneExpected
            (files_to_read_in self.old.place self.old.opened) found self.new.place) }
        // The file ends no later than the next block begins.
        ensures room { IfOk result (λ found. IfSome found (λ file.
            file.at + file_bytes_left file.file ≤ self.new.place.at)) }
        // The file begins at the offset that the reader remembers.
        ensures start { IfOk result (λ found. IfSome found (λ file.
            IsStartOf self.old file self.new.start)) }
        // The caller gets the open file, so none is open in the reader.
        ensures opened { self.new.opened ≡ None }
        // Whether files are left is not changed here (`due`).
        ensures due { self.new.due ≡ self.old.due }
        // The name of the package is unchanged.
        ensures name { name_in_tree self.new ≡ name_in_tree self.old }
        // The length of the package is unchanged.
        ensures len { package_len self.new ≡ package_len self.old }
        // The tree is unchanged. `Disk` is returned only if the tree failed, and no call is a
        // misuse if the tree has a file of this length under the name.
        ensures tree { ReadsFile (name_in_tree self.old) (package_len self.old) DiskFault
            (T.history tree.old) (T.history tree.new) (T.counts tree.old) (T.counts tree.new)
            result }
    {
        if let Some(file) = self.opened.take() {
            return Ok(Some(file));
        }
        let Some(found) = next_file(tree, self.name, &mut self.place)? else {
            return Ok(None);
        };
        // The file begins at its next byte, as none was read yet.
        self.start = found.at;
        Ok(Some(found))
    }
}

/// The first failed test of the pieces is that of the blocks: the one for which `verify` of
/// `pkg_core` refuses the package in memory.
pub fn the_pieces_are_refused_for_the_first_fault_of_the_blocks()
    ensures { (expected : List ExpectedFile) (r : Reading)
        → refusal_of_pieces (pieces_read_from_blocks expected r) ≡ contents_fault expected r }
{}
