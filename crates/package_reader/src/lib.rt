//! The contents of a package's files (apk-package(5)) in pieces, read from a tree of files: no
//! package is completely in memory.
//!
//! `PieceReader` returns the pieces of all files of a package in order, in a `Piece` of up to
//! 65,536 bytes. `FilePieces` returns those of a single file, by the offset at which it begins.
//! Neither allocates memory. The contracts cite these modules of `specs/`:
//!
//! - `Readers`: which pieces of a package are still to be read;
//! - `FileReading`: which bytes of a single file are;
//! - `Blocks`: the result for a block;
//! - `Opened`: the unread bytes of an open file.
//!
//! The rules are in `docs/formats.md`, "The other blocks".
#![tactic(auto)]

mod block;
mod one_file;
mod open;
mod piece;
mod reader;

pub use one_file::FilePieces;
pub use piece::{Piece, PieceFault};
pub use pkg_core::{
    Contents, Front, FrontFault, PACKAGE_WORD, PackageFault, PackageView, Part, ScriptsView,
    read_front, the_pieces_of_each_file_joined_are_its_contents,
};
pub use reader::{PieceReader, the_pieces_are_refused_for_the_first_fault_of_the_blocks};
