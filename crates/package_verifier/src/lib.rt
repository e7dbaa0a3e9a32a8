//! Packages (apk-package(5)) in a tree of files are read and tested, and none is completely in
//! memory. In memory are a package's values, one piece of its files' contents of up to 65,536
//! bytes, and the offset at which the contents of each file begin.
//!
//! `read_package` returns the result for a name, a `PackageRead`. A `TestedPackage` lends its
//! values and, in pieces, the contents of single files. `test_package` returns only the result of
//! the tests, a `PackageTest`. The contracts cite `Tested` (the contents of a tested package, and
//! of which files it is), `Places` (where files begin) and `Tests` of `specs/`. The rules are in
//! `docs/formats.md`, "Tests of a container" and "The other blocks".
#![tactic(auto)]

mod files;
mod package;
mod places;
mod read;
mod test;

pub use package::TestedPackage;
pub use package_reader::{FilePieces, PackageView, Piece, PieceFault, ScriptsView};
pub use read::{PackageRead, read_package};
pub use test::{PackageTest, test_package};
