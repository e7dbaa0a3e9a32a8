//! A file of a package that is read in pieces. The rules are in `docs/formats.md`, "The other
//! blocks", point 2 of the last list (the pieces).

ghost use Rattle.std.specs.Prelude.{◌≡◌, ◌≤◌, ◌<◌, ◌+◌, ◌++◌, ◌^◌, [], ℕ, List, None, Some, length, IfNone, IfOk, IfSome, IsOkAnd};
ghost use Rattle.std.specs.Result.{result_err};
ghost use Rattle.pkg_core.specs.Pieces.{PiecesRead};
ghost use Rattle.pkg_core.specs.Taking.{HasTaken, file_bytes_left, next_piece_len};
ghost use Rattle.pkg_core.specs.Contents.{fault_if_digest_is_not_of_bytes};
ghost use Rattle.pkg_core.specs.Opened.{expected_of};
ghost use Rattle.pkg_core.specs.Seen.{AreBytesRead, HasBytesAtOffset, ReadsFile};
ghost use Rattle.package_reader.specs.Opened.{AreLeftOf, AreTestedSoFar, IsResultOfNextPiece, IsOpenFile, IsPieceOf, IsNotDiskResult, place_fault};
ghost use Rattle.package_reader.specs.declared.piece.PieceFault.TheVariants.{Disk as DiskFault};

use crate::piece::{Piece, PieceFault};
use base_core::{Cause, Name, Tree};
use pkg_core::{FileCheck, Part, Wanted};

/// A file of a package that is being read in pieces, and the offset of its next byte in the
/// package. Contracts see, by `Opened` of `specs/`, which bytes of the package are still to be
/// read.
#[derive(Drop)]
pub(crate) struct OpenFile<'a> {
    /// The check of the file, with the expected size and digest.
    pub(crate) file: FileCheck<'a>,
    /// The offset in the package of the next byte of this file.
    pub(crate) at: u64,
}

impl<'a> OpenFile<'a> {
    /// Reads the file's next piece, of 65,536 bytes or the rest, from the package of this name. It
    /// returns which part of which file the piece is, and the rest of the file, unless the piece is
    /// the last. The tree is unchanged, whatever the result.
    ///
    /// # Errors
    ///
    /// `Bad` with `HashDiffers`, after the last piece, if all bytes together do not have the file's
    /// digest, or `Disk` if the tree failed.
    pub(crate) fn next_piece<T: Tree>(
        self,
        tree: &mut T,
        name: &Name,
        piece: &mut Piece,
    ) -> Result<(Part, Option<OpenFile<'a>>), PieceFault>
        // Offsets have 64 bits.
        requires { self.at + file_bytes_left self.file < 2 ^ 64 }
        // The bytes of the piece were read at the offset of the next byte.
        ensures seen { IsNotDiskResult result → (file_len : ℕ)
            → AreBytesRead (T.history tree.old) name.now file_len self.entry.at piece.new }
        // For each package that has the bytes of the piece at the offset: the piece is the next one
        // of this file, or the file's digest differs (*IsResultOfNextPiece*).
        ensures piece { (file so_far : List ℕ) (further before : PiecesRead)
            → HasBytesAtOffset file self.entry.at piece.new
            → self.entry.at + file_bytes_left self.entry.file ≤ length file
            → IsOpenFile self.entry so_far file further before
            → IsResultOfNextPiece so_far file piece.new further before result }
        // The piece has the length of the next piece, unless the tree failed.
        ensures len { IsNotDiskResult result → length piece.new ≡ next_piece_len self.entry.file }
        // The returned part is of this file, and a returned rest of the file begins after the
        // piece.
        ensures part { IfOk result (IsPieceOf self.entry (length piece.new)) }
        // A returned rest of the file has bytes left.
        ensures more { IfOk result (λ read. IfSome read.1 (λ further.
            0 < file_bytes_left further.file)) }
        // If no rest is returned, the piece has all bytes that were left.
        ensures all { IfOk result (λ read. IfNone read.1
            (length piece.new ≡ file_bytes_left self.entry.file)) }
        // If `so_far` was returned before: with the last piece all bytes of the file have its size
        // and its digest, or its digest differs.
        ensures digest { (so_far : List ℕ) → HasTaken self.entry.file so_far
            → 0 < file_bytes_left self.entry.file
            → AreTestedSoFar self.entry (so_far ++ piece.new) result }
        // A returned rest of the file ends at the same offset as the file before this piece.
        ensures room { IfOk result (λ read. IfSome read.1 (λ further.
            further.at + file_bytes_left further.file
            ≡ self.entry.at + file_bytes_left self.entry.file)) }
        // The tree is unchanged. `Disk` is returned only if the tree failed, and no call is a
        // misuse if the tree has a file of this length under the name.
        ensures tree { (file_len : ℕ) → self.entry.at + file_bytes_left self.entry.file ≤ file_len
            → ReadsFile name.now file_len DiskFault (T.history tree.old) (T.history tree.new)
            (T.counts tree.old) (T.counts tree.new) result }
    {
        let len = self.file.next_piece_len();
        piece.read(tree, name, self.at, len)?;
        // The offset after the piece.
        let at = self.at + len as u64;
        match self.file.take(piece.bytes()) {
            Ok((part, Some(file))) => Ok((part, Some(OpenFile { file, at }))),
            Ok((part, None)) => Ok((part, None)),
            Err(cause) => Err(PieceFault::Bad(cause)),
        }
    }
}

/// Opens a file with contents at an offset, of a package of this length.
///
/// # Errors
///
/// `DataOrder` with the pair (0, 0) if no offset is given, or `DataSize` if the package ends before
/// the file.
pub(crate) fn open_at<'a>(
    wanted: Wanted<'a>,
    at: Option<u64>,
    len: u64,
) -> Result<OpenFile<'a>, Cause>
    // The file is not empty.
    requires { 0 < wanted.size }
    // The error is that of the definition.
    ensures fault { result_err result ≡ place_fault (Some (expected_of wanted.entry)) at len }
    // The file ends within the package.
    ensures within { IfOk result (λ o. o.at + file_bytes_left o.file ≤ len) }
    // On Ok, the open file is the wanted one.
    ensures wanted { IfOk result (λ o. o.file.wanted ≡ wanted.entry) }
    // No bytes of the file were taken yet.
    ensures taken { IfOk result (λ o. HasTaken o.file []) }
    // On Ok, bytes of the file are left.
    ensures more { IfOk result (λ o. 0 < file_bytes_left o.file) }
    // If a package of this length has bytes of the wanted size and digest at the offset (`start`),
    // these are the bytes to be read.
    ensures left { (pkg bytes : List ℕ) (start : ℕ) → length pkg ≡ len → at ≡ Some start
        → HasBytesAtOffset pkg start bytes → length bytes ≡ wanted.entry.size
        → fault_if_digest_is_not_of_bytes wanted.entry.hash.now bytes ≡ None
        → IsOkAnd result (λ o. AreLeftOf o pkg bytes) }
{
    let Some(at) = at else {
        return Err(Cause::DataOrder {
            expected: (wanted.folder, wanted.file),
            found: (0, 0),
        });
    };
    // How many bytes the package has from the offset on.
    let found = len.saturating_sub(at);
    if found < wanted.size {
        return Err(Cause::DataSize {
            wanted: wanted.size,
            found,
        });
    }
    let file = FileCheck::new(wanted);
    Ok(OpenFile { file, at })
}
