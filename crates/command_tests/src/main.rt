//! Runs the command lines of the rows on standard input with `apk`, over trees in memory, and
//! prints a line for each row. `tests/rows.md` describes the form of rows.
//!
//! All rows (files, and command lines with their expected results) are in the file `stdin` of this
//! crate. The exit status is 0 if no row failed, and 1 otherwise.
#![tactic(auto)]

use apk_front::{apk, status};
use base_core::Words;
use gen_core::{GenFault, gen_};
use row_run::{Program, run_text};
use std::alloc::{AllocError, Global};
use std::io;
use std::io::{Read, Write};
use std::process::ExitCode;
use tree_memory::{MemorySink, MemoryTree};

/// The status of a refused run (`docs/commands.md`, "Answers and statuses"). `info` is refused if
/// the root has no database, a bad database, or a bad journal entry.
const REFUSED: u8 = 1;

/// The program `apk`, as rows run it.
struct Apk;

impl Program for Apk {
    /// Runs a command line, and returns its exit status.
    fn run(
        &self,
        alloc: Global,
        words: &Words,
        tree: &mut MemoryTree,
        out: &mut MemorySink,
        err: &mut MemorySink,
    ) -> u8 {
        status(&apk(alloc, words, tree, out, err))
    }

    /// Recovers a tree by `apk info`, which recovers and then only reads. Returns whether the run
    /// succeeded or was refused: a refusal is no failure here, since there may be no database.
    fn recover(&self, alloc: Global, tree: &mut MemoryTree) -> bool {
        let mut words = Words::new(alloc);
        if words.push(b"info").is_err() {
            return false;
        }
        let mut out = MemorySink::new(alloc);
        let mut err = MemorySink::new(alloc);
        self.run(alloc, &words, tree, &mut out, &mut err) <= REFUSED
    }

    /// The container that `gen_` makes of a dump text, or None if the text is no dump text.
    fn container_of(&self, alloc: Global, text: &[u8]) -> Result<Option<Vec<u8>>, AllocError> {
        match gen_(alloc, text) {
            Ok(bytes) => Ok(Some(bytes)),
            Err(GenFault::Memory) => Err(AllocError),
            Err(_) => Ok(None),
        }
    }
}

/// Runs the rows of standard input. The exit status is 1 if a row fails.
fn main(rt: HostRuntime) -> io::Result<ExitCode> {
    let alloc = rt.alloc();
    let mut text = Vec::new(alloc);
    rt.stdin().read_to_end(&mut text)?;
    let mut report = Vec::new(alloc);
    let passed = run_text(alloc, &Apk, &text, &mut report)?;
    rt.stdout().write_all(&report)?;
    Ok(ExitCode::from(if passed { 0 } else { 1 }))
}
