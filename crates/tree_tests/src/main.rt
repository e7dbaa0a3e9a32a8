//! Answers questions about what tests stand on: a tree and a sink in memory, and the texts of rows
//! that test command lines of `apk`. Other questions are about changes of several files in such a
//! tree, and about their recovery. The last are about the tree of the host, on the folder in which
//! this program runs. All rows (questions with their expected answers) are in the file `stdin` of
//! this crate; `tests/lines.md` describes their form. The README of this crate has a row for each
//! question.
#![tactic(auto)]

mod host;
mod journal;
mod rows;
mod tree_words;
mod trees;

use crate::host::HostFolder;
use crate::journal::Sweeps;
use crate::rows::RowText;
use crate::trees::InMemory;
use base_core::Words;
use row_lines::{Answer, Subject, run_program, value_named, word_at};
use std::alloc::{AllocError, Global};
use std::io;
use std::process::ExitCode;

/// What rows are about.
#[derive(Clone, Copy)]
enum Topic {
    /// Names, and a tree and a sink in memory.
    Trees,
    /// Texts of rows, and their reports.
    Rows,
    /// Changes of several files, and their recovery.
    Journal,
    /// The tree of the host, on the folder in which the program runs.
    Host,
}

// The words for the topics.
#[rattlefmt::skip]
const TOPICS: [(&[u8], Topic); 4] = [
    (b"trees", Topic::Trees),
    (b"rows", Topic::Rows),
    (b"journal", Topic::Journal),
    (b"host", Topic::Host),
];

/// The topic of the rows, and what the rows of each topic keep from one row to the next.
#[derive(Drop)]
struct TestTools<'a> {
    /// The topic that was named last, if it is one.
    topic: Option<Topic>,
    /// The tree and the sink.
    in_memory: InMemory,
    /// The text of rows.
    row_text: RowText,
    /// The folder in which the program runs.
    host_folder: HostFolder<'a, HostRuntime>,
}

impl Subject for TestTools<'_> {
    /// Answers a question about the topic. The question `topic WORD` sets the topic, and its answer
    /// is empty.
    fn answer(
        &mut self,
        alloc: Global,
        words: &Words,
        answer: &mut Answer,
    ) -> Result<(), AllocError> {
        if word_at(words, 0) == b"topic".as_slice() {
            self.topic = value_named(&TOPICS, word_at(words, 1));
            return Ok(());
        }
        match self.topic {
            Some(Topic::Trees) => self.in_memory.answer(alloc, words, answer),
            Some(Topic::Rows) => self.row_text.answer(alloc, words, answer),
            Some(Topic::Journal) => Sweeps.answer(alloc, words, answer),
            Some(Topic::Host) => self.host_folder.answer(alloc, words, answer),
            None => {
                answer.push(b"no topic");
                Ok(())
            }
        }
    }
}

/// Runs the rows of standard input, and returns the exit status.
fn main(rt: HostRuntime) -> io::Result<ExitCode> {
    let alloc = rt.alloc();
    let mut subject = TestTools {
        topic: None,
        in_memory: InMemory::new(alloc),
        row_text: RowText::new(alloc),
        host_folder: HostFolder::new(&rt, alloc),
    };
    let code = run_program(&rt, alloc, &mut subject);
    // Releases the lock on the folder, if a row has called the tree of the host.
    subject.host_folder.tree.leave();
    code
}
