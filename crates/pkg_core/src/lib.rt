//! Packages (apk-package(5)) with the contents of their files, and the test of a whole container
//! (apk-v3(5)): in memory, in pieces, or from a tree of files.
//!
//! - In memory: from the bytes of a file, `Package` returns its values and the contents of its
//!   files in order, all borrowed. `verify` tests all of a container of any schema.
//! - In pieces: nothing is read, no memory is allocated, and a reader passes the bytes.
//!   `BlockPlace` advances block by block. `open_file` compares the positions and the size of a
//!   block of contents with the next file of a walk. `FileCheck` takes the file's bytes piece by
//!   piece and returns which part of which file each is. It compares the digest before it returns
//!   the last one.
//! - From a tree: `read_front` takes the name of a file and returns its `Front`, the header and the
//!   first block. `Contents` tests and lends the values of a package's front.
//!
//! The contracts cite these modules of `specs/`:
//!
//! - `Contents`: which files have contents, and which contents the blocks give;
//! - `Opened`: the contents of a package that was read;
//! - `Whole`: the first failed test of a whole container;
//! - `Refusals` and `GoodContents`: the meaning of a refusal, and of contents in which no test
//!   fails;
//! - `Pieces`: which pieces the blocks of a package give;
//! - `Hashing`: the bytes of a hasher;
//! - `Taking`: the progress of a file's check;
//! - `Places`: the position of a reader in the blocks;
//! - `Front`: the tests of a front, and of which files it is one;
//! - `Seen`: which bytes of a file were read;
//! - `Values`: the values of a package.
//!
//! The rules are in `docs/formats.md`, "Tests of a container" and "The other blocks".
#![tactic(auto)]

mod checks;
mod contents;
mod file;
mod front;
mod hasher;
mod head;
mod laws;
mod pack;
mod place;
mod read;
mod walk;

pub use adb_schema::{
    DepView, DirInfo, FileInfo, FilePath, IDB_WORD, INDEX_WORD, INTENT_WORD, IdbView, IndexView,
    List, PACKAGE_WORD, PackageView, PkgInfo, ReadFault, ScriptsView, View, Which,
    is_reserved_file, no_repeated_name_is_reported_if_there_is_none,
    no_text_is_bad_where_each_keeps_its_rule, read_adb, sound_containers_hold_sound_values,
    the_first_bad_text_is_reported,
};
pub use checks::{
    a_package_has_the_contents_of_its_files, a_package_is_tested_by_its_values_and_then_its_files,
    good_blocks_give_the_contents_of_each_file, sha1_fault, sha256_fault, sha512_fault,
    table_of_schema, the_first_fault_of_contents_is_reported, verify,
};
pub use contents::Contents;
pub use file::{
    FileCheck, PIECE_LEN, Part, open_file, the_pieces_of_each_file_joined_are_its_contents,
};
pub use front::{Front, FrontFault};
pub use hasher::Hasher;
pub use head::HeadBytes;
pub use laws::{
    a_front_and_its_values_are_tested_as_a_whole_package, a_front_holds_the_payload_of_its_file,
    a_package_is_tested_by_its_front_and_then_by_its_contents, bytes_are_small,
    tested_payloads_hold_sound_values,
};
pub use pack::{Package, PackageFault};
pub use place::{BlockPlace, Step};
pub use read::read_front;
pub use walk::{FileContents, POSITIONS_LEN, Walk, Wanted, wanted_file};
