//! Answers questions about the files of a package, whose contents are in blocks. The order and the
//! tests are in `docs/formats.md`, "The other blocks".
use pkg_core::{Package, PackageFault};
use row_lines::Answer;
use std::alloc::{AllocError, Global};

/// How many times the next file of a package is requested, even after the end or an error.
const CALLS: u32 = 3;

/// Answers `package BYTES`: the identity of a package, how many folders it has, and the results of
/// three calls for its next file. A package that is refused before is answered by the cause.
pub(crate) fn add_files(alloc: Global, file: &[u8], answer: &mut Answer) -> Result<(), AllocError> {
    match Package::new(alloc, file) {
        Ok(mut package) => add_calls(alloc, &mut package, answer),
        Err(PackageFault::Bad(cause)) => answer.add_text(format!(in alloc; "{cause:?}")),
        Err(PackageFault::Memory) => return Err(AllocError),
    }
    Ok(())
}

/// Adds the identity of a package, its number of folders, and the result of each request for its
/// next file.
fn add_calls(alloc: Global, package: &mut Package<'_>, answer: &mut Answer) {
    answer.push(&package.id());
    answer.push(b" folders ");
    answer.add_number(package.view().paths().len() as u128);
    for _ in 0..CALLS {
        add_next(alloc, package, answer);
    }
}

/// Adds the result of a request for the next file: the position of the file's folder, that of the
/// file, and the file's bytes. It is `end` after the last file, and the cause if the package is
/// refused.
fn add_next(alloc: Global, package: &mut Package<'_>, answer: &mut Answer) {
    match package.next_file() {
        Ok(Some(contents)) => {
            answer.add_text(format!(in alloc; " {}.{} ", contents.path, contents.file));
            answer.push(contents.bytes)
        }
        Ok(None) => answer.push(b" end"),
        Err(cause) => answer.add_text(format!(in alloc; " {cause:?}")),
    }
}
