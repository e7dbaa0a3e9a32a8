//! Answers questions about the parts of a container: its blocks, the values that writers write, the
//! tests and views of payloads, and the files of packages in pieces. Other questions are about
//! installed packages: their database, the owners of files, and what a change does with files. The
//! last questions are about damaged containers. All rows (questions with their expected answers)
//! are in the file `stdin` of this crate; `tests/lines.md` describes their form. The README of this
//! crate has a row for each question.
#![tactic(auto)]

mod blocks;
mod damage;
mod databases;
mod flags;
mod members;
mod owners;
mod package;
mod package_tree;
mod pieces;
mod plans;
mod schemas;
mod split;
mod values;
mod writers;

use crate::blocks::FramedBlocks;
use crate::damage::CurrentContainer;
use crate::databases::Installed;
use crate::owners::AddedPackages;
use crate::pieces::Files;
use crate::plans::Planned;
use crate::schemas::CurrentPayload;
use crate::writers::Containers;
use base_core::Words;
use row_lines::{Answer, Subject, run_program, value_named, word_at};
use std::alloc::{AllocError, Global};
use std::io;
use std::process::ExitCode;

/// What rows are about.
#[derive(Clone, Copy)]
enum Topic {
    /// The blocks of a container.
    Blocks,
    /// Written values, and the files of a package.
    Writers,
    /// The values of a payload, their tests and their views.
    Schemas,
    /// The contents of a package's files, which are read in pieces.
    Pieces,
    /// The database of the installed packages.
    Databases,
    /// The packages that own files.
    Owners,
    /// What a change does with files.
    Plans,
    /// Damaged containers.
    Damage,
}

// The words for the topics.
#[rattlefmt::skip]
const TOPICS: [(&[u8], Topic); 8] = [
    (b"blocks", Topic::Blocks),
    (b"writers", Topic::Writers),
    (b"schemas", Topic::Schemas),
    (b"pieces", Topic::Pieces),
    (b"databases", Topic::Databases),
    (b"owners", Topic::Owners),
    (b"plans", Topic::Plans),
    (b"damage", Topic::Damage),
];

/// The topic of the rows, and what the rows of each topic keep from one row to the next.
#[derive(Drop)]
struct Parts {
    /// The topic that was named last, if it is one.
    topic: Option<Topic>,
    /// The payload that questions are about.
    payload: CurrentPayload,
    /// The database, and the packages that the next change adds.
    installed: Installed,
    /// The packages that a change adds.
    added: AddedPackages,
    /// The change whose files are planned, and the plan.
    planned: Planned,
    /// The container that is damaged.
    container: CurrentContainer,
}

impl Subject for Parts {
    /// Answers a question about the topic. The question `topic WORD` sets the topic, and its answer
    /// is empty.
    fn answer(
        &mut self,
        alloc: Global,
        words: &Words,
        answer: &mut Answer,
    ) -> Result<(), AllocError> {
        if word_at(words, 0) == b"topic".as_slice() {
            self.topic = value_named(&TOPICS, word_at(words, 1));
            return Ok(());
        }
        match self.topic {
            Some(Topic::Blocks) => FramedBlocks.answer(alloc, words, answer),
            Some(Topic::Writers) => Containers.answer(alloc, words, answer),
            Some(Topic::Schemas) => self.payload.answer(alloc, words, answer),
            Some(Topic::Pieces) => Files.answer(alloc, words, answer),
            Some(Topic::Databases) => self.installed.answer(alloc, words, answer),
            Some(Topic::Owners) => self.added.answer(alloc, words, answer),
            Some(Topic::Plans) => self.planned.answer(alloc, words, answer),
            Some(Topic::Damage) => self.container.answer(alloc, words, answer),
            None => {
                answer.push(b"no topic");
                Ok(())
            }
        }
    }
}

/// Runs the rows of standard input, and returns the exit status.
fn main(rt: HostRuntime) -> io::Result<ExitCode> {
    let alloc = rt.alloc();
    let mut subject = Parts {
        topic: None,
        payload: CurrentPayload::new(alloc),
        installed: Installed::new(alloc),
        added: AddedPackages::new(alloc),
        planned: Planned::new(alloc),
        container: CurrentContainer::new(alloc),
    };
    run_program(&rt, alloc, &mut subject)
}
