//! Answers questions to `base_core` and `tree_memory`: names and lists of names, and a sink (output
//! stream) in memory; a tree in memory with its misuses (invalid calls), its planned failures, and
//! the files that a crash leaves of it. The tree and the sink are kept from one row to the next.

mod calls;
mod files;

use crate::tree_words::{add_tree, long_at};
use crate::trees::calls::{Call, add_written, make_turns};
use crate::trees::files::{
    FileQuestion, add_counts, add_file_answer, add_is_name, add_names, plan_failures,
};
use base_core::{Name, Sink, Tree, Words, write_all};
use row_lines::{Answer, Subject, value_named, word_at};
use std::alloc::{AllocError, Global};
use tree_memory::{MemorySink, MemoryTree};

/// The questions of rows; the README of this crate says what each question answers.
#[derive(Clone, Copy)]
enum Question {
    /// `name TEXT`: whether TEXT is a valid name.
    Name,
    /// `names WORD ..`: which words are valid names.
    Names,
    /// Questions and calls to the sink.
    Sink(SinkQuestion),
    /// `new_tree`: the tree is replaced by an empty one.
    NewTree,
    /// `fail_at N ..`: which later calls on the tree fail.
    FailAt,
    /// `stop_after N`: after which call all calls on the tree fail.
    StopAfter,
    /// `counts`: the counts of calls on the tree, and of maps of names.
    Counts,
    /// `image N`: the files of the possible crash image with the number N.
    Image,
    /// `turns N HERE THERE`: a file is renamed to THERE and back, N times.
    Turns,
    /// `sync_names`: the names of the tree are synced.
    SyncNames,
    /// Questions about the file of a name, which is the second word of the row.
    File(FileQuestion),
}

/// The questions and calls to the sink.
#[derive(Clone, Copy)]
enum SinkQuestion {
    /// `new_sink`: the sink is replaced by an empty one.
    New,
    /// `fail_after N`: the sink fails after N more bytes.
    FailAfter,
    /// `take_at_most N`: the sink takes at most N bytes of each write.
    TakeAtMost,
    /// `write BYTES`: how many of the bytes the sink takes in one write.
    Write,
    /// `write_all BYTES`: whether the sink takes all of the bytes.
    WriteAll,
    /// `sink_bytes`: the bytes that the sink took, and how often the sink ran out of memory.
    BytesAndWants,
}

// The first word of each question.
#[rattlefmt::skip]
const QUESTIONS: [(&[u8], Question); 26] = [
    // Questions about names.
    (b"name", Question::Name),
    (b"names", Question::Names),
    // Questions and calls to the sink.
    (b"new_sink", Question::Sink(SinkQuestion::New)),
    (b"fail_after", Question::Sink(SinkQuestion::FailAfter)),
    (b"take_at_most", Question::Sink(SinkQuestion::TakeAtMost)),
    (b"write", Question::Sink(SinkQuestion::Write)),
    (b"write_all", Question::Sink(SinkQuestion::WriteAll)),
    (b"sink_bytes", Question::Sink(SinkQuestion::BytesAndWants)),
    // Questions and calls to the tree.
    (b"new_tree", Question::NewTree),
    (b"fail_at", Question::FailAt),
    (b"stop_after", Question::StopAfter),
    (b"counts", Question::Counts),
    (b"image", Question::Image),
    (b"turns", Question::Turns),
    (b"sync_names", Question::SyncNames),
    // Questions about a file of the tree.
    (b"put", Question::File(FileQuestion::Put)),
    (b"can_put", Question::File(FileQuestion::CanPut)),
    (b"file", Question::File(FileQuestion::Bytes)),
    (b"size", Question::File(FileQuestion::Size)),
    (b"read", Question::File(FileQuestion::Read)),
    (b"list", Question::File(FileQuestion::List)),
    // Calls that change a file of the tree, or sync it.
    (b"create", Question::File(FileQuestion::Call(Call::Create))),
    (b"append", Question::File(FileQuestion::Call(Call::Append))),
    (b"sync", Question::File(FileQuestion::Call(Call::Sync))),
    (b"remove", Question::File(FileQuestion::Call(Call::Remove))),
    (b"rename", Question::File(FileQuestion::Call(Call::Rename))),
];

/// The tree and the sink on which all rows work.
#[derive(Drop)]
pub(crate) struct InMemory {
    /// The tree, as earlier rows have left it.
    tree: MemoryTree,
    /// The sink, as earlier rows have left it.
    sink: MemorySink,
}

impl InMemory {
    /// The tree and the sink before the first row; both are empty.
    pub(crate) fn new(alloc: Global) -> InMemory {
        InMemory {
            tree: MemoryTree::new(alloc),
            sink: MemorySink::new(alloc),
        }
    }
}

impl Subject for InMemory {
    // Answers a question, which the first word of the row names, on the tree and the sink as
    // earlier rows have left them.
    fn answer(
        &mut self,
        alloc: Global,
        words: &Words,
        answer: &mut Answer,
    ) -> Result<(), AllocError> {
        let Some(question) = value_named(&QUESTIONS, word_at(words, 0)) else {
            answer.push(b"no question");
            return Ok(());
        };
        match question {
            Question::Name => return add_is_name(alloc, word_at(words, 1), answer),
            Question::Names => return add_names(alloc, words, answer),
            Question::Sink(question) => {
                add_sink_answer(alloc, &mut self.sink, question, words, answer)
            }
            Question::NewTree => self.tree = MemoryTree::new(alloc),
            Question::FailAt => return plan_failures(alloc, &mut self.tree, words),
            Question::StopAfter => self.tree.stop_after(long_at(words, 1)),
            Question::Counts => add_counts(&self.tree, answer),
            Question::Image => {
                let image = self.tree.pick_image(alloc, long_at(words, 1))?;
                add_tree(alloc, &image, answer)?;
                add_counts(&image, answer)
            }
            Question::Turns => return make_turns(alloc, &mut self.tree, words),
            Question::SyncNames => {
                let outcome = self.tree.sync_names();
                return add_written(alloc, &self.tree, outcome, answer);
            }
            Question::File(question) => match Name::read(alloc, word_at(words, 1))? {
                Some(name) => {
                    return add_file_answer(alloc, &mut self.tree, question, &name, words, answer);
                }
                None => answer.push(b"no name"),
            },
        }
        Ok(())
    }
}

// Answers a question to the sink, or makes the call on the sink that the row names.
fn add_sink_answer(
    alloc: Global,
    sink: &mut MemorySink,
    question: SinkQuestion,
    words: &Words,
    answer: &mut Answer,
) {
    match question {
        SinkQuestion::New => *sink = MemorySink::new(alloc),
        SinkQuestion::FailAfter => sink.fail_after(long_at(words, 1) as usize),
        SinkQuestion::TakeAtMost => sink.take_at_most((long_at(words, 1) as usize).max(1)),
        SinkQuestion::Write => match sink.write(word_at(words, 1)) {
            Ok(taken) => answer.add_number(taken as u128),
            Err(_) => answer.push(b"failed"),
        },
        SinkQuestion::WriteAll => match write_all(sink, word_at(words, 1)) {
            Ok(()) => answer.push(b"all"),
            Err(_) => answer.push(b"failed"),
        },
        SinkQuestion::BytesAndWants => {
            answer.push(sink.bytes());
            answer.add_word(b"wants ");
            answer.add_number(u128::from(sink.wants()))
        }
    }
}
