//! Answers questions about `own_core`: what a change of packages does with files. The tree and the
//! packages are kept from one row to the next.

mod answer;
mod change;

use crate::package::number_in;
use crate::plans::change::{ToldChange, add_plan};
use adb_schema::ReadFault;
use base_core::{Name, Words};
use db_core::Db;
use row_lines::{Answer, Subject, value_named, word_at};
use std::alloc::{AllocError, Global};
use tree_memory::MemoryTree;

/// The questions of rows; the README of this crate says what each question answers.
#[derive(Clone, Copy)]
enum Question {
    /// `new`: all packages and files of earlier rows are forgotten.
    New,
    /// `installed NAME VERSION PRIORITY FILES REPLACES ..`: a package before the change.
    Installed,
    /// `stays NAME`: a kept package after the change.
    Stays,
    /// `comes NAME VERSION PRIORITY FILES REPLACES ..`: an added package after the change.
    Comes,
    /// `file PATH BYTES`: a file is put into the tree.
    File,
    /// `fail_at N`: call number N on the tree will fail.
    Fail,
    /// `plan`: the plan of the change, or `purge`: its plan with `--purge`, by which configuration
    /// files that the user changed are removed with their package.
    Plan {
        /// Whether the plan is that with `--purge`.
        purge: bool,
    },
    /// `calls N`: whether the last plan made at most N calls on the tree.
    Calls,
    /// `owner PATH`: the package that lists PATH in the database after the last plan.
    Owner,
}

// The first word of the rows of each question.
#[rattlefmt::skip]
const QUESTIONS: [(&[u8], Question); 10] = [
    (b"new", Question::New),
    (b"installed", Question::Installed),
    (b"stays", Question::Stays),
    (b"comes", Question::Comes),
    (b"file", Question::File),
    (b"fail_at", Question::Fail),
    (b"plan", Question::Plan { purge: false }),
    (b"purge", Question::Plan { purge: true }),
    (b"calls", Question::Calls),
    (b"owner", Question::Owner),
];

/// The change and the tree that earlier rows describe, and the results of the last plan.
#[derive(Drop)]
pub(crate) struct Planned {
    /// The change that earlier rows describe.
    change: ToldChange,
    /// The tree, with the files that earlier rows have put there.
    tree: MemoryTree,
    /// How many calls on the tree the last plan made.
    calls_of_plan: u64,
    /// The file of the database after the change of the last plan; no bytes if it had no plan.
    database: Vec<u8>,
}

impl Planned {
    /// The values before the first row: no packages, an empty tree, and no plan.
    pub(crate) fn new(alloc: Global) -> Planned {
        Planned {
            change: ToldChange::new(alloc),
            tree: MemoryTree::new(alloc),
            calls_of_plan: 0,
            database: Vec::new(alloc),
        }
    }
}

impl Subject for Planned {
    /// Adds the answer to the row with these words, whose first word names the question.
    fn answer(
        &mut self,
        alloc: Global,
        words: &Words,
        answer: &mut Answer,
    ) -> Result<(), AllocError> {
        // What most questions are about: a name, a path or a number.
        let subject = word_at(words, 1);
        match value_named(&QUESTIONS, word_at(words, 0)) {
            Some(Question::New) => *self = Planned::new(alloc),
            Some(Question::Installed) => return self.change.install(alloc, words),
            Some(Question::Stays) => return self.change.keep(alloc, subject),
            Some(Question::Comes) => return self.change.add(alloc, words),
            Some(Question::File) => return put_file(alloc, &mut self.tree, words, answer),
            // The calls on the tree count from this row on, and the first one is number 1.
            Some(Question::Fail) => return self.tree.fail_at(&[number_in(subject)]),
            Some(Question::Plan { purge }) => return self.plan(alloc, purge, answer),
            Some(Question::Calls) => {
                answer.add_yes_or_no(self.calls_of_plan <= number_in(subject))
            }
            Some(Question::Owner) => return add_owner(alloc, &self.database, subject, answer),
            None => answer.push(b"no question"),
        }
        Ok(())
    }
}

impl Planned {
    /// Answers `plan` and `purge`: plans the change, and adds the plan to the answer.
    fn plan(&mut self, alloc: Global, purge: bool, answer: &mut Answer) -> Result<(), AllocError> {
        let calls_before = self.tree.calls();
        self.database = add_plan(alloc, &mut self.tree, &self.change, purge, answer)?;
        self.calls_of_plan = self.tree.calls().saturating_sub(calls_before);
        Ok(())
    }
}

/// Answers `file PATH BYTES`: puts a file with these bytes into the tree, or adds to the answer why
/// this is not possible.
fn put_file(
    alloc: Global,
    tree: &mut MemoryTree,
    words: &Words,
    answer: &mut Answer,
) -> Result<(), AllocError> {
    match Name::read(alloc, word_at(words, 1))? {
        Some(name) => return put_named(tree, &name, word_at(words, 2), answer),
        None => answer.push(b"no name"),
    }
    Ok(())
}

/// Puts a file with this name and with these bytes into the tree, or adds to the answer that this
/// is not possible.
fn put_named(
    tree: &mut MemoryTree,
    name: &Name,
    bytes: &[u8],
    answer: &mut Answer,
) -> Result<(), AllocError> {
    if tree.can_put(name) {
        return tree.put(name, bytes);
    }
    answer.push(b"no place");
    Ok(())
}

/// Answers `owner PATH`: adds to the answer the name of the package that lists PATH in the database
/// whose file is `file`.
fn add_owner(
    alloc: Global,
    file: &[u8],
    path: &[u8],
    answer: &mut Answer,
) -> Result<(), AllocError> {
    match Name::read(alloc, path)? {
        Some(path) => add_owner_of(alloc, file, &path, answer),
        None => answer.push(b"no name"),
    }
    Ok(())
}

/// Adds the name of the package that lists this path. Out of memory gives no text: the answer
/// fails.
fn add_owner_of(alloc: Global, file: &[u8], path: &Name, answer: &mut Answer) {
    match Db::read(alloc, file) {
        Ok(db) => match db.owner_of(path) {
            Some(index) => answer.push(db.package(index).info().name()),
            None => answer.push(b"none"),
        },
        Err(ReadFault::Bad(_)) => answer.push(b"bad"),
        Err(ReadFault::Memory) => answer.add_text(Err(AllocError)),
    }
}
