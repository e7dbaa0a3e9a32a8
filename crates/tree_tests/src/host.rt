//! Answers questions about `host_tree`, the tree of the host, on the folder in which this program
//! runs. The rules are in `docs/crash-safety.md`, "What the host's tree does". The files of the
//! folder stay from one row to the next.

use base_core::{Disk, Name, Tree, TreeFault, Words};
use host_files::{Host, Lock};
use host_tree::HostTree;
use row_lines::{Answer, Subject, number_of, value_named, word_at};
use std::alloc::{AllocError, Global};
use std::os::unix::fs::symlink;
use std::{fs, str};

/// The most bytes that a row may read, and the greatest offset at which it may read.
const MOST_BYTES: u128 = 1_000_000;

/// The questions about a file; the README of this crate says what each question shows. `sync_names`
/// is no such question, since it has no name of a file.
#[derive(Clone, Copy)]
enum Question {
    Create,
    Append,
    Sync,
    Write,
    Remove,
    Rename,
    Check,
    Size,
    Read,
    List,
    /// A question that is answered by a call on the host, and not on the tree.
    Host(HostCall),
}

/// The calls that rows make on the host itself.
#[derive(Clone, Copy)]
enum HostCall {
    /// `stands PATH`: whether the path leads to something.
    Exists,
    /// `link PATH TARGET`: makes a symbolic link at the path, to the target.
    Link,
    /// `unlink PATH`: removes the file at the path.
    Unlink,
}

// The first word of the rows of each question.
#[rattlefmt::skip]
const QUESTIONS: [(&[u8], Question); 13] = [
    (b"create", Question::Create),
    (b"append", Question::Append),
    (b"sync", Question::Sync),
    (b"write", Question::Write),
    (b"remove", Question::Remove),
    (b"rename", Question::Rename),
    (b"check", Question::Check),
    (b"size", Question::Size),
    (b"read", Question::Read),
    (b"list", Question::List),
    (b"stands", Question::Host(HostCall::Exists)),
    (b"link", Question::Host(HostCall::Link)),
    (b"unlink", Question::Host(HostCall::Unlink)),
];

/// The folder in which the program runs, and the tree whose root is this folder.
#[derive(Drop)]
pub(crate) struct HostFolder<'a, R: Host> {
    /// The runtime, by which rows also call the host without the tree.
    rt: &'a R,
    /// The tree that is tested. The first call on it locks the folder.
    pub(crate) tree: HostTree<'a, R>,
}

impl<'a, R: Host> Subject for HostFolder<'a, R> {
    /// Answers a question, which is the first word of a row. Earlier questions may have changed the
    /// files of the folder.
    fn answer(
        &mut self,
        alloc: Global,
        words: &Words,
        answer: &mut Answer,
    ) -> Result<(), AllocError> {
        let first = word_at(words, 0);
        // This question alone has no name of a file.
        if first == b"sync_names".as_slice() {
            add_outcome(answer, self.tree.sync_names());
            return Ok(());
        }
        let Some(question) = value_named(&QUESTIONS, first) else {
            answer.push(b"no question");
            return Ok(());
        };
        match Name::read(alloc, word_at(words, 1))? {
            Some(name) => self.add_answer(alloc, question, &name, words, answer),
            None => {
                answer.push(b"no name");
                Ok(())
            }
        }
    }
}

impl<'a, R: Host> HostFolder<'a, R> {
    /// The folder before the first call on its tree, which will lock the folder.
    pub(crate) fn new(rt: &'a R, alloc: Global) -> HostFolder<'a, R> {
        HostFolder {
            rt,
            tree: HostTree::new(rt, alloc, Lock::Exclusive),
        }
    }

    /// Answers a question about the file `name`, which is the second word of the row. Further words
    /// are arguments of the question.
    fn add_answer(
        &mut self,
        alloc: Global,
        question: Question,
        name: &Name,
        words: &Words,
        answer: &mut Answer,
    ) -> Result<(), AllocError> {
        let argument = word_at(words, 2);
        match question {
            Question::Create => add_outcome(answer, self.tree.create(name)),
            Question::Append => add_outcome(answer, self.tree.append(name, argument)),
            Question::Sync => add_outcome(answer, self.tree.sync(name)),
            Question::Write => add_outcome(answer, self.write(name, argument)),
            Question::Remove => add_outcome(answer, self.tree.remove(name)),
            Question::Rename => match Name::read(alloc, argument)? {
                Some(to) => add_outcome(answer, self.tree.rename(name, &to)),
                None => answer.push(b"no name"),
            },
            Question::Check => {
                // Without the name of a source, the tree is asked whether it accepts a removal.
                let source = Name::read(alloc, argument)?;
                add_outcome(answer, self.tree.check_target(name, source.as_ref()))
            }
            Question::Size => match self.tree.size(name) {
                Ok(Some(len)) => answer.add_number(u128::from(len)),
                Ok(None) => answer.push(b"none"),
                Err(_) => answer.push(b"fault"),
            },
            Question::Read => return self.add_read(alloc, name, words, answer),
            Question::List => self.add_list(alloc, name, answer),
            Question::Host(call) => self.add_host_answer(call, name, argument, answer),
        }
        Ok(())
    }

    /// Answers `write NAME BYTES`: makes a file with these bytes by three calls, the last of which
    /// syncs the file.
    fn write(&mut self, name: &Name, bytes: &[u8]) -> Result<(), Disk> {
        self.tree.create(name)?;
        self.tree.append(name, bytes)?;
        self.tree.sync(name)
    }

    /// Answers `read NAME AT LEN`: adds LEN bytes of a file from the offset AT on.
    fn add_read(
        &mut self,
        alloc: Global,
        name: &Name,
        words: &Words,
        answer: &mut Answer,
    ) -> Result<(), AllocError> {
        let (Some(at), Some(len)) = (number_of(word_at(words, 2)), number_of(word_at(words, 3)))
        else {
            answer.push(b"no number");
            return Ok(());
        };
        if at > MOST_BYTES || len > MOST_BYTES {
            answer.push(b"too many bytes");
            return Ok(());
        }
        let mut bytes = vec![in alloc; 0u8; len as usize]?;
        match self.tree.read_at(name, at as u64, &mut bytes) {
            Ok(()) => answer.push(&bytes),
            Err(_) => answer.push(b"fault"),
        }
        Ok(())
    }

    /// Answers `list FOLDER`: adds the names of all files below a folder.
    fn add_list(&mut self, alloc: Global, folder: &Name, answer: &mut Answer) {
        match self.tree.list(alloc, folder) {
            Ok(names) => {
                for i in 0..names.len() {
                    answer.add_word(names.get(i).as_bytes());
                }
            }
            Err(TreeFault::Memory) => answer.push(b"no memory"),
            Err(TreeFault::Disk) => answer.push(b"fault"),
        }
    }

    /// Answers a question by calling the host itself, and not the tree: whether a path leads to
    /// something, making a symbolic link, or removing a file.
    fn add_host_answer(&self, call: HostCall, path: &Name, target: &[u8], answer: &mut Answer) {
        let (Ok(path), Ok(target)) = (str::from_utf8(path.as_bytes()), str::from_utf8(target))
        else {
            return answer.push(b"no text");
        };
        match call {
            HostCall::Exists => match fs::exists(self.rt, path) {
                Ok(true) => answer.push(b"yes"),
                _ => answer.push(b"no"),
            },
            HostCall::Link => add_outcome(answer, symlink(self.rt, target, path)),
            HostCall::Unlink => add_outcome(answer, fs::remove_file(self.rt, path)),
        }
    }
}

/// Adds whether a call succeeded: `ok` or `fault`.
fn add_outcome<E: Drop>(answer: &mut Answer, outcome: Result<(), E>) {
    match outcome {
        Ok(()) => answer.push(b"ok"),
        Err(_) => answer.push(b"fault"),
    }
}
