//! Packages in a tree: their fronts (headers and first blocks), and their files, which are read in
//! pieces. The tests are in `docs/formats.md`, "The other blocks", the last list.

use crate::package_tree::PackageTree;
use crate::pieces::made::{Flaw, low_word, package_of};
use crate::pieces::{add_formatted, cause_text, part_text, small_number};
use adb_schema::PACKAGE_WORD;
use base_core::{TreeFault, Words};
use package_reader::{FilePieces, Piece, PieceFault, PieceReader};
use package_verifier::{PackageRead, TestedPackage, read_package};
use pkg_core::{Contents, Front, FrontFault, PackageFault, read_front};
use row_lines::{Answer, Bytes, word_at};
use std::alloc::{AllocError, Global};
use tree_memory::MemoryTree;

/// The most pieces of one package that are read, and the most files of a row's package.
const MOST: usize = 100;

/// The questions about a package with files of some sizes.
#[derive(Clone, Copy)]
pub(crate) enum Asked {
    /// Its pieces, the number of calls on the tree, and the longest read: `read SIZES`.
    Read,
    /// Its pieces if the byte at the offset AT of the last file is wrong: `spoil AT SIZES`.
    Spoil,
    /// Its pieces if the last block of contents is replaced by the first: `repeat SIZES`.
    Repeat,
    /// Its pieces if the last block of contents has this length: `shorten LEN SIZES`.
    Shorten,
    /// Its pieces, and then the lengths of those of each file read again, from one that does not
    /// exist to the first: `back SIZES`.
    Back,
    /// Its pieces, and then the lengths of those of each file read again, from the last to the
    /// first. In between, a byte of the last file is changed: `change AT SIZES`.
    Change,
    /// The result for the package cut at each length, from one offset on: `ends FROM SIZES`.
    Ends,
}

/// What is read of a package.
#[derive(Clone, Copy)]
pub(crate) enum Reading {
    /// The front (header and first block) alone, and no piece.
    Front,
    /// All pieces.
    Pieces,
    /// All pieces. The result also has two numbers: of the calls on the tree after the front was
    /// read, and of the bytes of the longest read.
    CountedPieces,
}

/// Adds to `answer` the answer to a question about a package, as the README of this crate lists it.
/// If the question takes a number, the number is before the sizes of the files in the row.
pub(crate) fn add_asked(
    alloc: Global,
    asked: Asked,
    words: &Words,
    answer: &mut Answer,
) -> Result<(), AllocError> {
    // The offset or the length in the row, if the question takes one.
    let number = small_number(word_at(words, 1)) as usize;
    // The index of the word with the first size, and the flaw of the package.
    let (first, flaw) = match asked {
        Asked::Read | Asked::Back => (1, Flaw::None),
        Asked::Repeat => (1, Flaw::Repeated),
        Asked::Spoil => (2, Flaw::Spoiled(number)),
        Asked::Shorten => (2, Flaw::Shortened(number)),
        Asked::Change | Asked::Ends => (2, Flaw::None),
    };
    let mut sizes = Vec::new(alloc);
    for i in first..words.len() {
        if sizes.len() < MOST {
            sizes.push(small_number(word_at(words, i)))?;
        }
    }
    let file = package_of(alloc, &sizes, flaw)?;
    match asked {
        Asked::Ends => add_cuts(alloc, &file, number, Reading::Pieces, answer),
        _ => add_readings(alloc, asked, number, &sizes, &file, answer),
    }
}

/// Adds to `answer` the results for a package that is cut to each length from `first` on. A length
/// is added with its result if the result differs from that of the length before.
pub(crate) fn add_cuts(
    alloc: Global,
    file: &[u8],
    first: usize,
    reading: Reading,
    answer: &mut Answer,
) -> Result<(), AllocError> {
    // The result for the length before.
    let mut last = Vec::new(alloc);
    for len in first..=file.len() {
        let found = result_of(alloc, &file[..len], reading)?;
        if found != last {
            answer.add_word(b"from ");
            answer.add_number(len as u128);
            answer.add_word(&found);
        }
        last = found;
    }
    Ok(())
}

/// The result of reading a package of these bytes, as a text.
fn result_of(alloc: Global, file: &[u8], reading: Reading) -> Result<Vec<u8>, AllocError> {
    let mut package = PackageTree::new(alloc, file)?;
    let mut text = Bytes::new(alloc);
    add_package(alloc, &mut package, reading, &mut text);
    text.finish()
}

/// Adds to `answer` the result of reading the package in `file`, and then, if the question asks for
/// it, of reading its files again. `number` is the offset in the row, if the question takes one.
fn add_readings(
    alloc: Global,
    asked: Asked,
    number: usize,
    sizes: &[u32],
    file: &[u8],
    answer: &mut Answer,
) -> Result<(), AllocError> {
    let mut package = PackageTree::new(alloc, file)?;
    let reading = match asked {
        Asked::Read => Reading::CountedPieces,
        _ => Reading::Pieces,
    };
    let mut text = Bytes::new(alloc);
    add_package(alloc, &mut package, reading, &mut text);
    answer.push(&text.finish()?);
    let files = low_word(sizes.len());
    match asked {
        // The file that is read again first does not exist.
        Asked::Back => add_again(alloc, &mut package, None, files + 1, answer),
        Asked::Change => {
            let changed = package_of(alloc, sizes, Flaw::Spoiled(number))?;
            add_again(alloc, &mut package, Some(&changed), files, answer)
        }
        _ => Ok(()),
    }
}

// ---- a package in a tree

/// Adds to `text` the result of reading the package.
fn add_package(alloc: Global, package: &mut PackageTree, reading: Reading, text: &mut Bytes) {
    match read_front(alloc, &mut package.tree, &package.name, PACKAGE_WORD) {
        Ok(Some(front)) => add_contents(alloc, package, &front, reading, text),
        Err(FrontFault::Bad(cause)) => text.push_text(cause_text(alloc, cause)),
        // Not reached, as the tree has the file and does not fail.
        Ok(None) | Err(FrontFault::Disk) => text.push(b"a fault"),
        Err(FrontFault::Memory) => text.push_made(Err(AllocError)),
    }
}

/// Adds to `text` the result of reading the package that has this front.
fn add_contents(
    alloc: Global,
    package: &mut PackageTree,
    front: &Front,
    reading: Reading,
    text: &mut Bytes,
) {
    let contents = match Contents::new(alloc, front) {
        Ok(contents) => contents,
        Err(PackageFault::Bad(cause)) => return text.push_text(cause_text(alloc, cause)),
        Err(PackageFault::Memory) => return text.push_made(Err(AllocError)),
    };
    if let Reading::Front = reading {
        let folders = contents.view().paths().len();
        return text.push_text(format!(in alloc; "a package with folders: {folders}"));
    }
    // The number of calls on the tree so far.
    let calls = package.tree.calls();
    let mut reader = PieceReader::new(front, &contents, &package.name);
    add_pieces(alloc, &mut package.tree, &mut reader, text);
    if let Reading::CountedPieces = reading {
        let calls = package.tree.calls().saturating_sub(calls);
        let longest = package.tree.longest_read();
        text.push_text(format!(in alloc; " calls {calls} longest {longest}"));
    }
}

/// Adds to `text` all pieces that are left, and `end` if the end was reached. After a fault, one
/// more call is made, and its result is added too.
fn add_pieces(
    alloc: Global,
    tree: &mut MemoryTree,
    reader: &mut PieceReader<'_>,
    text: &mut Bytes,
) {
    let mut piece = Piece::new();
    // Whether a call had a fault before.
    let mut faulty = false;
    for _ in 0..MOST {
        if !text.as_slice().is_empty() {
            text.push(b" ");
        }
        match reader.next_piece(tree, &mut piece) {
            Ok(Some(part)) => text.push_text(part_text(alloc, part, piece.bytes().len())),
            Ok(None) => return text.push(b"end"),
            Err(fault) => {
                text.push_text(fault_text(alloc, fault));
                if faulty {
                    return;
                }
                faulty = true;
            }
        }
    }
}

/// Tests the package, and replaces it by `changed`, if these bytes are given. Then adds to `answer`
/// the lengths of the pieces of the files, from the position `back` to the first, until a file has
/// a fault.
fn add_again(
    alloc: Global,
    package: &mut PackageTree,
    changed: Option<&[u8]>,
    back: u32,
    answer: &mut Answer,
) -> Result<(), AllocError> {
    match read_package(alloc, &mut package.tree, &package.name) {
        Ok(PackageRead::Sound(tested)) => {
            if let Some(bytes) = changed {
                package.put(bytes)?;
            }
            add_files(alloc, &mut package.tree, &tested, back, answer);
        }
        Ok(PackageRead::Bad(cause)) => add_formatted(answer, cause_text(alloc, cause)),
        // Not reached, as the tree has the file and does not fail.
        Ok(PackageRead::Absent) | Err(TreeFault::Disk) => answer.add_word(b"a fault"),
        Err(TreeFault::Memory) => return Err(AllocError),
    }
    Ok(())
}

/// Adds to `answer` the lengths of the pieces of the files of a package, from the position `back`
/// to the first, until a file has a fault.
fn add_files(
    alloc: Global,
    tree: &mut MemoryTree,
    package: &TestedPackage,
    back: u32,
    answer: &mut Answer,
) {
    for i in 0..back {
        // All files are in folder 1, and count from 1.
        let mut file = package.file(1, back - i);
        if !add_file(alloc, tree, &mut file, answer) {
            break;
        }
    }
}

/// Adds to `answer` the lengths of the pieces of a file, and returns whether the end was reached.
/// After a fault, one more call is made, and its result is added too.
fn add_file(
    alloc: Global,
    tree: &mut MemoryTree,
    file: &mut FilePieces<'_>,
    answer: &mut Answer,
) -> bool {
    let mut piece = Piece::new();
    // Whether a call had a fault before.
    let mut faulty = false;
    for _ in 0..MOST {
        match file.next_piece(tree, &mut piece) {
            Ok(true) => {
                answer.add_word(b"");
                answer.add_number(piece.bytes().len() as u128);
            }
            Ok(false) => {
                answer.add_word(b"end");
                return true;
            }
            Err(fault) => {
                add_formatted(answer, fault_text(alloc, fault));
                if faulty {
                    return false;
                }
                faulty = true;
            }
        }
    }
    false
}

/// Why no piece was read: the cause of a failed test, or that the tree failed.
fn fault_text(alloc: Global, fault: PieceFault) -> Result<String, AllocError> {
    match fault {
        PieceFault::Bad(cause) => cause_text(alloc, cause),
        PieceFault::Disk => format!(in alloc; "a fault"),
    }
}
