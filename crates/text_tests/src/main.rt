//! Answers questions about texts that the program reads: versions and dependencies, command lines,
//! and text databases. All rows (questions with their expected answers) are in the file `stdin` of
//! this crate; `tests/lines.md` describes their form. The README of this crate has a row for each
//! question.
#![tactic(auto)]

mod command_lines;
mod dependencies;
mod text_databases;

use crate::command_lines::answer_about_command_lines;
use crate::dependencies::answer_about_dependencies;
use crate::text_databases::answer_about_text_databases;
use base_core::{Text, Words};
use row_lines::{Answer, Subject, run_program, value_named, word_at};
use std::alloc::{AllocError, Global};
use std::io;
use std::process::ExitCode;

/// What rows are about.
#[derive(Clone, Copy)]
enum Topic {
    /// Versions, dependencies, worlds and lists of repositories.
    Dependencies,
    /// Command lines, refusals and reports.
    CommandLines,
    /// Text databases.
    TextDatabases,
}

// The words for the topics.
#[rattlefmt::skip]
const TOPICS: [(&[u8], Topic); 3] = [
    (b"dependencies", Topic::Dependencies),
    (b"command_lines", Topic::CommandLines),
    (b"text_databases", Topic::TextDatabases),
];

/// The topic of the rows. Nothing else is kept from one row to the next.
#[derive(Drop)]
struct Texts {
    /// The topic that was named last, if it is one.
    topic: Option<Topic>,
}

impl Subject for Texts {
    /// Answers a question about the topic. The question `topic WORD` sets the topic, and its answer
    /// is empty.
    fn answer(
        &mut self,
        alloc: Global,
        words: &Words,
        answer: &mut Answer,
    ) -> Result<(), AllocError> {
        if word_at(words, 0) == b"topic".as_slice() {
            self.topic = value_named(&TOPICS, word_at(words, 1));
            return Ok(());
        }
        match self.topic {
            Some(Topic::Dependencies) => answer_about_dependencies(alloc, words, answer),
            Some(Topic::CommandLines) => return answer_about_command_lines(alloc, words, answer),
            Some(Topic::TextDatabases) => return answer_about_text_databases(alloc, words, answer),
            None => answer.push(b"no topic"),
        }
        Ok(())
    }
}

/// Adds a text that was made, if there was memory for it.
fn add_made(text: Result<Text, AllocError>, answer: &mut Answer) {
    match text {
        Ok(text) => answer.push(text.as_bytes()),
        Err(fault) => answer.add_text(Err(fault)),
    }
}

/// Runs the rows of standard input, and returns the exit status.
fn main(rt: HostRuntime) -> io::Result<ExitCode> {
    let alloc = rt.alloc();
    let mut subject = Texts { topic: None };
    run_program(&rt, alloc, &mut subject)
}
