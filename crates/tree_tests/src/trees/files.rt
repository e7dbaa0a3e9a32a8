//! Answers about names and a tree in memory: what is put and read, and which calls are planned to
//! fail. The rules are in `docs/crash-safety.md`, "A tree at one moment" and "Misuses, faults and
//! counts".

use crate::tree_words::{add_count, long_at};
use crate::trees::calls::{Call, add_call, ok_or_failed};
use base_core::{Name, Names, Tree, Words, read_all};
use row_lines::{Answer, word_at};
use std::alloc::{AllocError, Global};
use tree_memory::MemoryTree;

/// The most bytes that a row reads at once.
const LONGEST: u64 = 4096;

/// The questions about the file of a name.
#[derive(Clone, Copy)]
pub(crate) enum FileQuestion {
    /// `put NAME BYTES`: whether the tree can have a file under the name. If it can, the file is
    /// put there.
    Put,
    /// `can_put NAME`: whether the tree can have a file under the name.
    CanPut,
    /// `file NAME`: the bytes of the file.
    Bytes,
    /// `size NAME`: the length of the file.
    Size,
    /// `read NAME AT LEN`: LEN bytes of the file from the offset AT on.
    Read,
    /// `list NAME`: the names below the folder NAME.
    List,
    /// Calls that change the file, or sync it: `create NAME`, `append NAME BYTES`, `sync NAME`,
    /// `remove NAME`, `rename NAME NAME`.
    Call(Call),
}

/// Answers a question about the file of a name, or makes the call on the tree that the row names.
/// Further words of the row are arguments.
pub(crate) fn add_file_answer(
    alloc: Global,
    tree: &mut MemoryTree,
    question: FileQuestion,
    name: &Name,
    words: &Words,
    answer: &mut Answer,
) -> Result<(), AllocError> {
    match question {
        FileQuestion::Put => {
            let can = tree.can_put(name);
            if can {
                tree.put(name, word_at(words, 2))?;
            }
            answer.add_yes_or_no(can)
        }
        FileQuestion::CanPut => answer.add_yes_or_no(tree.can_put(name)),
        FileQuestion::Bytes => add_file(alloc, tree, name, answer),
        FileQuestion::Size => match tree.size(name) {
            Ok(Some(size)) => answer.add_number(u128::from(size)),
            Ok(None) => answer.push(b"absent"),
            Err(_) => answer.push(b"failed"),
        },
        FileQuestion::Read => return add_read(alloc, tree, name, words, answer),
        FileQuestion::List => match tree.list(alloc, name) {
            Ok(names) => add_each(&names, answer),
            Err(_) => answer.push(b"failed"),
        },
        FileQuestion::Call(call) => {
            return add_call(alloc, tree, call, name, word_at(words, 2), answer);
        }
    }
    Ok(())
}

/// Answers `file NAME`: adds the bytes of the file, or `differs` if `read_all` reads other bytes
/// than `file` returns.
fn add_file(alloc: Global, tree: &mut MemoryTree, name: &Name, answer: &mut Answer) {
    let Ok(whole) = read_all(alloc, tree, name) else {
        return answer.push(b"failed");
    };
    let file = tree.file(name);
    if whole.as_deref() == file {
        answer.push(file.unwrap_or(b"absent"))
    } else {
        answer.push(b"differs")
    }
}

/// Answers `read NAME AT LEN`: reads LEN bytes of the file, from the offset AT on, into a buffer of
/// digits `7`. Adds whether the read succeeded, the buffer, and the length of the longest read so
/// far.
fn add_read(
    alloc: Global,
    tree: &mut MemoryTree,
    name: &Name,
    words: &Words,
    answer: &mut Answer,
) -> Result<(), AllocError> {
    let len = long_at(words, 3).min(LONGEST) as usize;
    // The buffer; bytes that the read does not write stay `7`.
    let mut into = Vec::from_elem(alloc, b'7', len)?;
    let outcome = tree.read_at(name, long_at(words, 2), &mut into);
    answer.push(ok_or_failed(outcome));
    answer.add_word(&into);
    // Adds the space between the bytes and the number.
    answer.add_word(b"");
    answer.add_number(u128::from(tree.longest_read()));
    Ok(())
}

/// Plans that the later calls on the tree with the numbers in the row fail (`fail_at N ..`).
pub(crate) fn plan_failures(
    alloc: Global,
    tree: &mut MemoryTree,
    words: &Words,
) -> Result<(), AllocError> {
    let mut calls = Vec::new(alloc);
    for i in 1..words.len() {
        calls.push(long_at(words, i))?;
    }
    tree.fail_at(&calls)
}

/// Adds how many calls on the tree were made, and how many of them wrote, failed, and ran out of
/// memory (`wants`). Then adds the length of the longest read, and the number of the tree's maps of
/// names.
pub(crate) fn add_counts(tree: &MemoryTree, answer: &mut Answer) {
    let counts: [(&[u8], u64); 6] = [
        (b"calls", tree.calls()),
        (b"writes", tree.writes()),
        (b"faults", tree.faults()),
        (b"wants", tree.wants()),
        (b"longest", tree.longest_read()),
        (b"maps", tree.maps()),
    ];
    for (what, count) in counts {
        add_count(answer, what, count);
    }
}

/// Answers `name TEXT`: adds whether TEXT is a valid name. If it is, the answer is yes only if the
/// name and a copy of the name have the bytes of TEXT.
pub(crate) fn add_is_name(
    alloc: Global,
    text: &[u8],
    answer: &mut Answer,
) -> Result<(), AllocError> {
    let is_name = match Name::read(alloc, text)? {
        Some(name) => {
            let copied = name.copy(alloc)?;
            name.as_bytes() == text && copied.as_bytes() == text
        }
        None => false,
    };
    answer.add_yes_or_no(is_name);
    Ok(())
}

/// Answers `names WORD ..`: adds how many of the words are valid names, and each of these names.
pub(crate) fn add_names(
    alloc: Global,
    words: &Words,
    answer: &mut Answer,
) -> Result<(), AllocError> {
    let mut names = Names::new(alloc);
    for i in 1..words.len() {
        if let Some(name) = Name::read(alloc, word_at(words, i))? {
            names.push(name)?;
        }
    }
    answer.add_number(names.len() as u128);
    add_each(&names, answer);
    Ok(())
}

/// Adds each name of a list, in its order.
fn add_each(names: &Names, answer: &mut Answer) {
    for i in 0..names.len() {
        answer.add_word(names.get(i).as_bytes());
    }
}
