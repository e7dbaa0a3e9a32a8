//! Numbers of a row, trees that are made from its words, and the files and the counts of a tree as
//! words of an answer. The README of this crate describes these forms.
use base_core::{Name, Words};
use row_lines::{Answer, Bytes, number_of, word_at};
use std::alloc::{AllocError, Global};
use tree_memory::MemoryTree;

/// The number in the word of a row with this index, or 0 if the word is no number of 64 bits.
pub(crate) fn long_at(words: &Words, i: usize) -> u64 {
    u64::try_from(number_of(word_at(words, i)).unwrap_or(0)).unwrap_or(0)
}

/// A tree with the files that the words of a row from the index `first` on describe: the name of a
/// file, its bytes, the name of the next file, and so on. A file that the tree cannot have is left
/// out.
pub(crate) fn tree_of(
    alloc: Global,
    words: &Words,
    first: usize,
) -> Result<MemoryTree, AllocError> {
    let mut tree = MemoryTree::new(alloc);
    for i in first..words.len() {
        // A word at an odd distance from the first one has a file's bytes, and the word before it
        // the file's name.
        if (i - first) % 2 == 1 {
            put(alloc, &mut tree, words.word(i - 1), words.word(i))?;
        }
    }
    Ok(tree)
}

/// Puts a file into the tree, if its name is valid and the tree can have a file under this name.
pub(crate) fn put(
    alloc: Global,
    tree: &mut MemoryTree,
    name: &[u8],
    bytes: &[u8],
) -> Result<(), AllocError> {
    let Some(name) = Name::read(alloc, name)? else {
        return Ok(());
    };
    if tree.can_put(&name) {
        return tree.put(&name, bytes);
    }
    Ok(())
}

/// The files of a tree as one text: each name with the bytes of its file, as `NAME=BYTES`.
pub(crate) fn text_of(alloc: Global, tree: &MemoryTree) -> Result<Vec<u8>, AllocError> {
    let names = tree.names(alloc)?;
    let mut text = Bytes::new(alloc);
    for i in 0..names.len() {
        let name = names.get(i);
        text.push(name.as_bytes());
        text.push(b"=");
        text.push(tree.file(name).unwrap_or(b"absent"));
        text.push(b" ");
    }
    text.finish()
}

/// Adds the files of a tree to the answer as words `NAME=BYTES`, if it has any.
pub(crate) fn add_tree(
    alloc: Global,
    tree: &MemoryTree,
    answer: &mut Answer,
) -> Result<(), AllocError> {
    let names = tree.names(alloc)?;
    for i in 0..names.len() {
        let name = names.get(i);
        answer.add_named(name.as_bytes(), tree.file(name).unwrap_or(b"absent"));
    }
    Ok(())
}

/// Adds the word `what`, which says what is counted, and then the count, as the next word.
pub(crate) fn add_count(answer: &mut Answer, what: &[u8], count: u64) {
    answer.add_word(what);
    answer.push(b" ");
    answer.add_number(u128::from(count))
}
