//! The answer to the question `many`: a journal entry (intent) with so many writes that a
//! comparison of each pair of its names would take too long. Such an entry passes the tests of
//! `docs/formats.md`, "Tests of a container", also the test that no name is repeated.
use crate::tree_words::{add_count, long_at, put};
use adb_schema::INTENT_WORD;
use adb_view::Val;
use adb_write::{Writer, file_of};
use base_core::{Name, Names, Words};
use journal_intent::PreparedIntent;
use journal_recovery::recover;
use row_lines::Answer;
use std::alloc::{AllocError, Global};
use tree_memory::MemoryTree;

/// The number in the name of the first write. All numbers have six digits, so that the names are in
/// byte order, and a tree in memory adds each name at its end.
const FIRST_NUMBER: usize = 100_000;

/// The most bytes that a payload may have (`docs/formats.md`, "Canonical layout").
const MOST_BYTES: usize = 268_435_455;

/// The greatest number of writes in a journal entry that a row may ask for. The number of those
/// writes that are not done yet has the same limit.
const MOST_WRITES: u64 = 65_536;

/// Answers `many WRITES WAITING`: makes a journal entry with WRITES writes, of which the files of
/// the last WAITING are still staged. Adds how many names are read back from the entry. Then adds
/// whether a recovery succeeds, how many calls wrote, and how many files have their final names.
pub(crate) fn add_many_writes(
    alloc: Global,
    words: &Words,
    answer: &mut Answer,
) -> Result<(), AllocError> {
    let count = long_at(words, 1).min(MOST_WRITES) as usize;
    let waiting = long_at(words, 2).min(MOST_WRITES) as usize;
    let Some(file) = intent_file(alloc, count)? else {
        answer.push(b"no intent");
        return Ok(());
    };
    let mut tree = MemoryTree::new(alloc);
    put_many_writes(alloc, &mut tree, &file, count, waiting)?;
    add_count(answer, b"read", names_read(alloc, file));
    add_recovery(alloc, &mut tree, answer)
}

/// Recovers a tree. Adds whether this succeeds, how many calls on the tree wrote, and how many
/// files have their final names.
fn add_recovery(
    alloc: Global,
    tree: &mut MemoryTree,
    answer: &mut Answer,
) -> Result<(), AllocError> {
    let recovered = recover(alloc, tree).is_ok();
    answer.add_word(if recovered { b"ok" } else { b"refused" });
    add_count(answer, b"writes", tree.writes());
    add_count(answer, b"names", names_in_place(&tree.names(alloc)?));
    Ok(())
}

/// The name of the write with this index: `f` and a number of six digits.
fn name_of(i: usize) -> [u8; 7] {
    let mut name = *b"f000000";
    let mut number = FIRST_NUMBER.saturating_add(i);
    // The last digit of the number is the last byte of the name.
    for place in 1..name.len() {
        name[7 - place] = b'0' + (number % 10) as u8;
        number /= 10;
    }
    name
}

/// Whether a name is that of the write with this index.
fn is_name_of(name: &Name, i: usize) -> bool {
    name.as_bytes() == name_of(i).as_slice()
}

/// The file of a journal entry with no removals and `count` writes, or None if the writer refuses
/// it or its payload is too long.
fn intent_file(alloc: Global, count: usize) -> Result<Option<Vec<u8>>, AllocError> {
    let mut writer = Writer::new(alloc);
    let root = write_intent(alloc, &mut writer, count)?;
    match writer.finish(root) {
        Ok(payload) => file_of_payload(alloc, &payload),
        Err(_) => Ok(None),
    }
}

/// Writes the value of a journal entry with no removals and `count` writes.
fn write_intent(alloc: Global, writer: &mut Writer, count: usize) -> Result<Val, AllocError> {
    let mut names = Vec::new(alloc);
    for i in 0..count {
        names.push(writer.blob(&name_of(i))?)?;
    }
    let writes = writer.arr(&names)?;
    // The word 0 is null: there are no removals.
    writer.obj(&[Val::of(0), writes])
}

/// The file of a journal entry with this payload, or None if the payload is too long.
fn file_of_payload(alloc: Global, payload: &[u8]) -> Result<Option<Vec<u8>>, AllocError> {
    if payload.len() > MOST_BYTES {
        return Ok(None);
    }
    Ok(Some(file_of(alloc, INTENT_WORD, payload)?))
}

/// How many writes of the journal entry `file` are read back with the name that belongs to their
/// index; 0 if the entry is refused.
fn names_read(alloc: Global, file: Vec<u8>) -> u64 {
    let Ok(intent) = PreparedIntent::of_file(alloc, file) else {
        return 0;
    };
    let mut read: u64 = 0;
    for i in 0..intent.writes_len() {
        if is_name_of(intent.write(i), i) {
            read = read.saturating_add(1);
        }
    }
    read
}

/// Puts the files of the `count` writes of the journal entry `file` into the tree, and the entry
/// itself. The files of the last `waiting` writes are in the staging area. The others have their
/// final names, as if they had been moved there.
fn put_many_writes(
    alloc: Global,
    tree: &mut MemoryTree,
    file: &[u8],
    count: usize,
    waiting: usize,
) -> Result<(), AllocError> {
    let moved = count.saturating_sub(waiting);
    for i in 0..moved {
        put(alloc, tree, &name_of(i), b"1")?;
    }
    put(alloc, tree, b"lib/apk/intent", file)?;
    for i in moved..count {
        put_staged(alloc, tree, i)?;
    }
    Ok(())
}

/// Puts the staged file of the write with this index into the tree.
fn put_staged(alloc: Global, tree: &mut MemoryTree, i: usize) -> Result<(), AllocError> {
    // Staged files are numbered from 1.
    let number = i.saturating_add(1);
    let name = format!(in alloc; "lib/apk/stage/{number}")?;
    put(alloc, tree, name.as_bytes(), b"1")
}

/// How many names of a tree are the final name of a write: the name at an index, in byte order, is
/// the name of the write with this index.
fn names_in_place(names: &Names) -> u64 {
    let mut found: u64 = 0;
    for i in 0..names.len() {
        if is_name_of(names.get(i), i) {
            found = found.saturating_add(1);
        }
    }
    found
}
