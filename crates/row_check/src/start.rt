//! Trees in memory: the tree that a row begins with, the bytes of its files, and the comparison of
//! two trees. The rules are in `tests/rows.md`, "Lines": the lines `from` and `file`, and the last
//! paragraph.
use crate::check::Program;
use crate::report::{Piece, Report};
use row_text::{Content, Row};
use std::alloc::AllocError;
use tree_memory::MemoryTree;

/// The tree that a row begins with: the files that an earlier row left, if the row names one
/// (`from`), and its own files. `left` has the trees that earlier rows left, or None for a row that
/// failed, after which the row fails too.
pub fn tree_of<P: Program>(
    program: &P,
    row: &Row,
    left: &[Option<MemoryTree>],
    report: &mut Report,
) -> MemoryTree {
    let mut tree = MemoryTree::new(report.alloc);
    if let Some(number) = row.from {
        match left.get(number) {
            Some(Some(earlier)) => tree = report.image_of(earlier, 0),
            _ => report.differ(row.line, &[], b"the row that it begins with failed"),
        }
    }
    for file in &row.files {
        let Some(content) = &file.content else {
            continue;
        };
        let bytes = bytes_of(program, content, report);
        if !tree.can_put(&file.name) {
            let what = [Piece::Text(b"no file can stand at ")];
            report.differ(row.line, &what, file.name.as_bytes());
        } else if tree.put(&file.name, &bytes).is_err() {
            report.run_out();
        }
    }
    tree
}

/// The bytes of a content of a row: the bytes that the row gives, or those of the container that
/// the program writes of the dump text. If the text is no dump text, the row fails.
pub fn bytes_of<P: Program>(program: &P, content: &Content, report: &mut Report) -> Vec<u8> {
    let Some(line) = content.dump else {
        return report.copy_of(&content.text);
    };
    match program.container_of(report.alloc, &content.text) {
        Ok(Some(bytes)) => return bytes,
        Ok(None) => report.differ(line, &[], b"no dump text"),
        Err(AllocError) => report.run_out(),
    }
    Vec::new(report.alloc)
}

/// Whether two trees have the same files. `with_scratch` says whether files count whose names are
/// scratch names, under which an output is first written. Comparisons of the files before and after
/// a command line leave them out.
pub fn are_alike(
    one: &MemoryTree,
    other: &MemoryTree,
    with_scratch: bool,
    report: &mut Report,
) -> bool {
    for tree in [one, other] {
        let Ok(names) = tree.names(report.alloc) else {
            report.run_out();
            return false;
        };
        for i in 0..names.len() {
            let name = names.get(i);
            // Whether the file of this name is compared.
            let counts = with_scratch || !name.as_bytes().ends_with(b".apk-tmp");
            if counts && one.file(name) != other.file(name) {
                return false;
            }
        }
    }
    true
}
