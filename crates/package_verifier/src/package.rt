//! A package in a tree that was read and tested once. The rules are in `docs/formats.md`, "The
//! other blocks", the last list (the front, and the pieces). What is kept of a package in memory is
//! described in the README of this crate and in `docs/DECISIONS.md`, "Packages that are not in
//! memory as a whole".

ghost use Rattle.std.specs.Prelude.{◌≡◌, true, is_none};
ghost use Rattle.package_reader.specs.adb_schema.Soundness.{payload_fault};
ghost use Rattle.adb_view.specs.declared.tables.Which.TheVariants as Tables;
ghost use Rattle.package_reader.specs.pkg_core.Front.{front_payload};

use crate::places::{FilePlace, offset_of};
use base_core::Name;
use package_reader::{Contents, FilePieces, Front};

/// A package in a tree that passed all tests: its name, its values, and where the contents of each
/// file begin. Contracts see, by `Tested` of `specs/`, its value and of which files it is.
#[derive(Drop)]
pub struct TestedPackage {
    /// The name under which the package was read.
    pub(crate) name: Name,
    /// The header and the first block, which has the values.
    pub(crate) front: Front,
    /// Where the contents of each file begin, in the order of the files.
    pub(crate) places: Vec<FilePlace>,
    // All tests of the payload were passed.
    ghost tested: { is_none (payload_fault Tables.Package (front_payload front)) ≡ true },
}

impl TestedPackage {
    ghost use Rattle.std.specs.Prelude.{◌≡◌, [], ℕ, List};
    ghost use Rattle.package_verifier.specs.Tested.{IsTestedOf, tested_id, tested_len, tested_name, tested_payload, tested_value};
    ghost use Rattle.package_reader.specs.FileReading.{HasUnreadBytes, HaveBeenReturned, expected_file_of, package_len_of_file, package_name_of_file};
    ghost use Rattle.package_reader.specs.pkg_core.Contents.{bytes_of_file, contents_in, expected_files_of_package};
    ghost use Rattle.package_reader.specs.pkg_core.Opened.{expected_file_at};
    ghost use Rattle.package_reader.specs.pkg_core.Whole.{files_read_from_package};
    ghost use Rattle.package_reader.specs.pkg_core.Values.{payload_of_contents, value_of_contents};
    ghost use Rattle.sha2.specs.Sha256.{sha256};

    /// The name under which the package is in the tree.
    pub fn name(&self) -> &Name
        ensures { result.now ≡ tested_name self.now }
    {
        &self.name
    }

    /// The values of the package. They are not tested again, and no memory is allocated.
    pub fn contents(&self) -> Contents<'_>
        // The result has the value of the tested package.
        ensures value { value_of_contents result ≡ tested_value self.now }
        // The result has the payload of the tested package.
        ensures payload { payload_of_contents result ≡ tested_payload self.now }
        // The id is the digest of the payload.
        ensures id { sha256 (payload_of_contents result) ≡ tested_id self.now }
    {
        Contents::open(self.front.payload())
    }

    /// The contents of the file with these positions in pieces, from the first on. A file without
    /// contents has no pieces.
    pub fn file(&self, folder: u32, file: u32) -> FilePieces<'_>
        // The pieces are read from the file with the package's name.
        ensures name { package_name_of_file result ≡ tested_name self.now }
        // The file has the length of the tested package.
        ensures len { package_len_of_file result ≡ tested_len self.now }
        // Whatever the tree has, the bytes of the file are compared with the size and the digest
        // that the package's value lists.
        ensures due { expected_file_of result ≡ expected_file_at folder file
            (expected_files_of_package (tested_value self.now)) }
        // No bytes were returned yet.
        ensures begun { HaveBeenReturned result [] }
        // The pieces give the contents of the file in the package that was tested.
        ensures reading { (name pkg : List ℕ) → IsTestedOf name pkg self.now → HasUnreadBytes
            result pkg (bytes_of_file folder file (contents_in (files_read_from_package pkg))) }
    {
        let len = self.front.file_len();
        let at = offset_of(&self.places, folder, file);
        FilePieces::new(&self.name, len, self.contents(), folder, file, at)
    }
}
