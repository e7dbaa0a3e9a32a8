//! The pieces of a single file of a package. The rules are in `docs/formats.md`, "The other
//! blocks", point 2 of the last list (the pieces).

ghost use Rattle.std.specs.Option.{ForSome};
ghost use Rattle.std.specs.Prelude.{◌≡◌, ◌<◌, ◌≤◌, Some};
ghost use Rattle.package_reader.specs.Opened.{open_file_end};
ghost use Rattle.pkg_core.specs.Taking.{file_bytes_left};

use crate::open::{OpenFile, open_at};
use crate::piece::{Piece, PieceFault};
use base_core::{Cause, Name, Tree};
use pkg_core::{Contents, Wanted, wanted_file};

/// The bytes of a single file of a package in pieces, read from the package at the offset at which
/// the file begins. All bytes of the file are tested again. No memory is allocated. Contracts see,
/// by `FileReading` of `specs/`, which bytes of a package are still to be read.
#[derive(Drop)]
pub struct FilePieces<'a> {
    // The name of the package.
    pub(crate) name: &'a Name,
    // How many bytes the package has.
    pub(crate) len: u64,
    // The values of the package, which list the size and the digest of the file.
    pub(crate) contents: Contents<'a>,
    // The size and the digest that the bytes must have; None if the file has no contents.
    pub(crate) due: Option<Wanted<'a>>,
    // The rest of the file; None after its last piece.
    pub(crate) opened: Option<OpenFile<'a>>,
    // The test that failed, if one did.
    pub(crate) refused: Option<Cause>,
    // The open file ends within the package.
    ghost within: { open_file_end opened ≤ len },
    // An open file has bytes left.
    ghost more: { ForSome opened (λ o. 0 < file_bytes_left o.file) },
    // If the file is open, `due` has its size and digest.
    ghost same: { ForSome opened (λ o. due ≡ Some o.file.wanted) },
}

impl<'a> FilePieces<'a> {
    ghost use Rattle.std.specs.Prelude.{◌≡◌, ◌<◌, [], ℕ, List, None, Some, length, IfErr, IfOk, IfSome, Err};
    ghost use Rattle.base_core.specs.Calls.{IfObservable};
    ghost use Rattle.base_core.specs.Tree.{files_of};
    ghost use Rattle.pkg_core.specs.Contents.{ExpectedFile, expected_files_of_package, fault_if_digest_is_not_of_bytes};
    ghost use Rattle.pkg_core.specs.Opened.{expected_file_at, expected_of};
    ghost use Rattle.pkg_core.specs.Seen.{HasBytesAtOffset, ReadsFile};
    ghost use Rattle.pkg_core.specs.Values.{value_of_contents};
    ghost use Rattle.package_reader.specs.FileReading.{IsTestedReturn, ReturnsNextBytes, HasFewerLeft, RemembersFileFault, HaveBeenReturned, HasUnreadBytes, bytes_left_of, expected_file_of, remembered_fault, package_len_of_file, package_name_of_file};
    ghost use Rattle.package_reader.specs.Opened.{place_fault};
    ghost use Rattle.package_reader.specs.declared.piece.PieceFault.TheVariants.{Bad, Disk as DiskFault};

    /// The pieces of the file with these positions. The file begins at the offset `at` in the
    /// package, which has this name, this length and these values. A file without contents has no
    /// pieces. Each call fails if the file has contents, but no offset is given or the package is
    /// too short for them.
    pub fn new(
        name: &'a Name,
        len: u64,
        contents: Contents<'a>,
        folder: u32,
        file: u32,
        at: Option<u64>,
    ) -> FilePieces<'a>
        // The pieces are read from the package of the given name.
        ensures name { package_name_of_file result ≡ name.entry.now }
        // The package has the given length.
        ensures len { package_len_of_file result ≡ len }
        // The size and the digest that are compared are those that the values list for the file.
        ensures due { expected_file_of result ≡ expected_file_at folder file
            (expected_files_of_package (value_of_contents contents.entry)) }
        // No bytes were returned yet.
        ensures begun { HaveBeenReturned result [] }
        // If the file cannot be at this offset of the package, this is remembered as its fault.
        ensures fault { remembered_fault result ≡ place_fault (expected_file_of result) at len }
        // If a package of this length has bytes of the expected size and digest at the offset
        // (`start`), these are the bytes to be read.
        ensures reading { (pkg bytes : List ℕ) (e : ExpectedFile) (start : ℕ) → length pkg ≡ len
            → at ≡ Some start → expected_file_at folder file
            (expected_files_of_package (value_of_contents contents.entry)) ≡ Some e
            → HasBytesAtOffset pkg start bytes → length bytes ≡ e.size
            → fault_if_digest_is_not_of_bytes e.hash bytes
            ≡ None
            → HasUnreadBytes result pkg bytes }
        // If the package lists no contents for the file, no bytes are to be read.
        ensures empty { (pkg : List ℕ) → expected_file_of result ≡ None
            → HasUnreadBytes result pkg [] }
    {
        let view = contents.view();
        match wanted_file(&view, folder, file) {
            Some(wanted) => FilePieces::of(name, len, contents, wanted, at),
            None => FilePieces {
                name,
                len,
                contents,
                due: None,
                opened: None,
                refused: None,
            },
        }
    }

    /// The pieces of a file with contents, which begins at this offset. If the package cannot have
    /// the file there, each call of `next_piece` fails.
    fn of(
        name: &'a Name,
        len: u64,
        contents: Contents<'a>,
        wanted: Wanted<'a>,
        at: Option<u64>,
    ) -> FilePieces<'a>
        // The file is not empty.
        requires { 0 < wanted.size }
        // The pieces are read from the package of the given name.
        ensures name { package_name_of_file result ≡ name.entry.now }
        // The package has the given length.
        ensures len { package_len_of_file result ≡ len }
        // The expected file is the wanted one.
        ensures due { expected_file_of result ≡ Some (expected_of wanted.entry) }
        // No bytes were returned yet.
        ensures begun { HaveBeenReturned result [] }
        // If the file cannot be at this offset of the package, this is remembered as its fault.
        ensures fault { remembered_fault result ≡ place_fault (expected_file_of result) at len }
        // If a package of this length has bytes of the expected size and digest at the offset
        // (`start`), these are the bytes to be read.
        ensures reading { (pkg bytes : List ℕ) (start : ℕ) → length pkg ≡ len → at ≡ Some start
            → HasBytesAtOffset pkg start bytes → length bytes ≡ wanted.entry.size
            → fault_if_digest_is_not_of_bytes wanted.entry.hash.now bytes ≡ None
            → HasUnreadBytes result pkg bytes }
    {
        let due = Some(wanted);
        match open_at(wanted, at, len) {
            Ok(file) => FilePieces {
                name,
                len,
                contents,
                due,
                opened: Some(file),
                refused: None,
            },
            Err(cause) => FilePieces {
                name,
                len,
                contents,
                due,
                opened: None,
                refused: Some(cause),
            },
        }
    }

    /// Reads the next piece into `piece`, and returns true; or returns false if no byte of the file
    /// is left. The pieces have 65,536 bytes each, and the last one 1 to 65,536. The tree is
    /// unchanged, whatever the result.
    ///
    /// # Errors
    ///
    /// `Bad` with `HashDiffers` in place of the last piece, if all bytes together do not have the
    /// file's digest. `Bad` at once if the file has no place in the package (`new`). Each later
    /// call returns the same. `Disk` if the tree failed: then the reader may only be dropped.
    pub fn next_piece<T: Tree>(
        &mut self,
        tree: &mut T,
        piece: &mut Piece,
    ) -> Result<bool, PieceFault>
        // If the tree has the package: the piece has the next of the bytes that are left (`left`),
        // or no byte is left.
        ensures piece { IfObservable (T.history tree.old) (λ v. (pkg left : List ℕ)
            → files_of v (package_name_of_file self.old) ≡ Some pkg
            → HasUnreadBytes self.old pkg left
            → ReturnsNextBytes (HasUnreadBytes self.new pkg) left piece.new result) }
        // For each package, also one that was changed since: the last piece and the end are
        // returned only if all bytes together have the expected size and digest.
        ensures tested { (so_far : List ℕ) → HaveBeenReturned self.old so_far
            → IsTestedReturn self.old so_far piece.new result self.new }
        // The expected file is unchanged.
        ensures due { expected_file_of self.new ≡ expected_file_of self.old }
        // The bytes of the piece are subtracted from those that are left.
        ensures left { IfOk result (HasFewerLeft self.old (length piece.new) self.new) }
        // A failed test is remembered for the next call.
        ensures refused { IfErr result (λ fault. RemembersFileFault fault self.new) }
        // Each later call returns a test that failed.
        ensures again { IfSome (remembered_fault self.old) (λ cause. result ≡ Err (Bad cause)) }
        // The name of the package is unchanged.
        ensures name { package_name_of_file self.new ≡ package_name_of_file self.old }
        // The length of the package is unchanged.
        ensures len { package_len_of_file self.new ≡ package_len_of_file self.old }
        // The tree is unchanged. `Disk` is returned only if the tree failed, and no call is a
        // misuse if the tree has a file of this length under the name.
        ensures tree { ReadsFile (package_name_of_file self.old) (package_len_of_file self.old)
            DiskFault
            (T.history tree.old) (T.history tree.new) (T.counts tree.old) (T.counts tree.new)
            result }
    {
        if let Some(cause) = self.refused {
            return Err(PieceFault::Bad(cause));
        }
        match self.read_next(tree, piece) {
            Err(PieceFault::Bad(cause)) => {
                self.refused = Some(cause);
                Err(PieceFault::Bad(cause))
            }
            other => other,
        }
    }

    /// Reads the next piece, if no test failed. The clauses are those of `next_piece`, except that
    /// a failed test is not remembered yet.
    fn read_next<T: Tree>(&mut self, tree: &mut T, piece: &mut Piece) -> Result<bool, PieceFault>
        // No test has failed so far.
        requires { remembered_fault self.old ≡ None }
        // If the tree has the package: the piece has the next of the bytes that are left (`left`),
        // or no byte is left.
        ensures piece { IfObservable (T.history tree.old) (λ v. (pkg left : List ℕ)
            → files_of v (package_name_of_file self.old) ≡ Some pkg
            → HasUnreadBytes self.old pkg left
            → ReturnsNextBytes (HasUnreadBytes self.new pkg) left piece.new result) }
        // The last piece and the end are returned only if all bytes pass the tests.
        ensures tested { (so_far : List ℕ) → HaveBeenReturned self.old so_far
            → IsTestedReturn self.old so_far piece.new result self.new }
        // The expected file is unchanged.
        ensures due { expected_file_of self.new ≡ expected_file_of self.old }
        // The bytes of the piece are subtracted from those that are left.
        ensures left { IfOk result (HasFewerLeft self.old (length piece.new) self.new) }
        // The name of the package is unchanged.
        ensures name { package_name_of_file self.new ≡ package_name_of_file self.old }
        // The length of the package is unchanged.
        ensures len { package_len_of_file self.new ≡ package_len_of_file self.old }
        // The tree is unchanged. `Disk` is returned only if the tree failed, and no call is a
        // misuse if the tree has a file of this length under the name.
        ensures tree { ReadsFile (package_name_of_file self.old) (package_len_of_file self.old)
            DiskFault
            (T.history tree.old) (T.history tree.new) (T.counts tree.old) (T.counts tree.new)
            result }
    {
        // The proof needs that the file ends within the package.
        let _len = self.len;
        // Without an open file, no byte is left.
        let Some(file) = self.opened.take() else {
            return Ok(false);
        };
        let (_part, rest) = file.next_piece(tree, self.name, piece)?;
        self.opened = rest;
        Ok(true)
    }
}
