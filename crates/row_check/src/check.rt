//! The program that rows run, the results of a run, and their comparison with what a row expects
//! (`tests/rows.md`, "Lines").

use crate::recovery::images_of;
use crate::report::{Piece, Report};
use crate::start::{are_alike, bytes_of};
use base_core::{Name, Words};
use row_text::{NamedFile, Step};
use std::alloc::{AllocError, Global};
use tree_memory::{MemorySink, MemoryTree};

/// A program that rows can run, over a tree and two sinks in memory.
pub trait Program {
    /// Runs a command line, given its words without the program's name, and returns the exit
    /// status.
    fn run(
        &self,
        alloc: Global,
        words: &Words,
        tree: &mut MemoryTree,
        out: &mut MemorySink,
        err: &mut MemorySink,
    ) -> u8;

    /// Recovers a tree: completes or discards the change of an earlier run that was stopped.
    /// Returns whether that succeeded.
    fn recover(&self, alloc: Global, tree: &mut MemoryTree) -> bool;

    /// The container that is written of a dump text, or None if the text is no dump text.
    fn container_of(&self, alloc: Global, text: &[u8]) -> Result<Option<Vec<u8>>, AllocError>;
}

/// The results of a run that ended: the tree that it left, its exit status and what it printed.
#[derive(Drop)]
pub struct Run {
    /// The tree that the run left, with the counts of its calls.
    pub tree: MemoryTree,
    /// The exit status of the run.
    pub status: u8,
    /// What the run printed on standard output.
    pub out: MemorySink,
    /// What the run printed on standard error.
    pub err: MemorySink,
}

/// A command line of a row, the program that runs it, and the files that it finds.
#[derive(Drop)]
pub struct Trial<'a, P: Program> {
    /// The program that is run.
    pub program: &'a P,
    /// The command line, and what is expected of it.
    pub step: &'a Step,
    /// The files that the command line finds.
    pub before: &'a MemoryTree,
}

impl<'a, P: Program> Trial<'a, P> {
    /// Compares what a run of the command line printed and left with all that the row expects of
    /// this command line. A run in which the tree or a stream was out of memory fails the row.
    pub fn check_run(&self, run: &Run, report: &mut Report) {
        self.check_streams(run, report);
        check_counts(self.step, run, report);
        // The files that existed before the command line, and those that exist after it.
        for tree in [self.before, &run.tree] {
            let Ok(names) = tree.names(report.alloc) else {
                return report.run_out();
            };
            for i in 0..names.len() {
                self.check_file(&run.tree, names.get(i), report);
            }
        }
        // The paths for which the row has a line `then`, since a file may be absent there.
        for file in &self.step.files {
            self.check_file(&run.tree, &file.name, report);
        }
        check_names(self.step, &run.tree, report)
    }

    /// Compares standard output, standard error and the exit status of a run with those that the
    /// row expects.
    pub fn check_streams(&self, run: &Run, report: &mut Report) {
        let line = self.step.line;
        let out = bytes_of(self.program, &self.step.out, report);
        report.compare(
            line,
            &[Piece::Text(b"standard output")],
            run.out.bytes(),
            &out,
        );
        let what = [Piece::Text(b"standard error")];
        report.compare(line, &what, run.err.bytes(), &self.step.err);
        let status = self.step.status.unwrap_or(0);
        report.compare_numbers(
            line,
            &[Piece::Text(b"status")],
            u64::from(run.status),
            status,
        )
    }

    /// Checks the file of a name after a command line, which left the tree `after`. The file has to
    /// be as the row's line `then` for this name says, or, without such a line, as before the
    /// command line.
    fn check_file(&self, after: &MemoryTree, name: &Name, report: &mut Report) {
        // The bytes that the file has to have; None if the file has to be absent.
        let wanted = match wanted_file(self.step, name) {
            // The row has a line `then` for this name.
            Some(file) => match &file.content {
                Some(content) => Some(bytes_of(self.program, content, report)),
                None => None,
            },
            // Otherwise the file has to be as before the command line.
            None => match self.before.file(name) {
                Some(bytes) => Some(report.copy_of(bytes)),
                None => None,
            },
        };
        let line = self.step.line;
        let what = [Piece::Text(name.as_bytes())];
        match (after.file(name), wanted) {
            (None, None) => {}
            (Some(found), Some(wanted)) => report.compare(line, &what, found, &wanted),
            (Some(_), None) => report.differ(line, &what, b" stands there"),
            (None, Some(_)) => report.differ(line, &what, b" is absent"),
        }
    }
}

/// Compares the counts of calls of the tree with those that the row states. A run in which the tree
/// or a stream was out of memory fails the row.
fn check_counts(step: &Step, run: &Run, report: &mut Report) {
    if let Some(calls) = step.calls {
        let what = [Piece::Text(b"calls")];
        report.compare_numbers(step.line, &what, run.tree.calls(), calls);
    }
    if let Some(writes) = step.writes {
        let what = [Piece::Text(b"writing calls")];
        report.compare_numbers(step.line, &what, run.tree.writes(), writes);
    }
    if let Some(most) = step.reads
        && run.tree.longest_read() > most
    {
        let what = [Piece::Text(b"bytes of a reading call")];
        report.compare_numbers(step.line, &what, run.tree.longest_read(), most);
    }
    if run.tree.wants() != 0 || run.out.wants() != 0 || run.err.wants() != 0 {
        report.run_out();
    }
}

/// What the row expects at a path after a command line (a line `then`), or None if the row has no
/// such line for the path.
fn wanted_file<'a>(step: &'a Step, name: &Name) -> Option<&'a NamedFile> {
    for file in &step.files {
        if file.name.as_bytes() == name.as_bytes() {
            return Some(file);
        }
    }
    None
}

/// Compares the names of all files with those that the row lists (`names`), if it has such a list.
fn check_names(step: &Step, tree: &MemoryTree, report: &mut Report) {
    let Some(wanted) = &step.names else {
        return;
    };
    let Ok(names) = tree.names(report.alloc) else {
        return report.run_out();
    };
    // Each file of the tree has to be in the row's list.
    for i in 0..names.len() {
        let name = names.get(i);
        if !wanted
            .iter()
            .any(|other| other.as_bytes() == name.as_bytes())
        {
            report.differ(step.line, &[Piece::Text(name.as_bytes())], b" is a name");
        }
    }
    // Each name in the row's list has to be that of a file of the tree.
    for name in wanted {
        if tree.file(name).is_none() {
            report.differ(step.line, &[Piece::Text(name.as_bytes())], b" is no name");
        }
    }
}

/// Checks that each crash image of the tree that a run left has the same files as this tree.
pub fn check_images(step: &Step, tree: &MemoryTree, report: &mut Report) {
    for choice in 0..images_of(tree) {
        let image = report.image_of(tree, choice);
        if !are_alike(&image, tree, false, report) {
            let how = b"a crash behind the run leaves other files";
            return report.differ(step.line, &[], how);
        }
    }
}
