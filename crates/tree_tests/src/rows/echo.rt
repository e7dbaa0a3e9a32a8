//! The program whose runs the texts of rows describe. It prints each word on a line, and returns
//! the status 1 if there is no word. Some words make this program do what no program should do.

use base_core::{Disk, Name, Tree, Words, write_all};
use row_lines::value_named;
use row_run::Program;
use std::alloc::{AllocError, Global};
use tree_memory::{MemorySink, MemoryTree};

/// A program for these tests, which prints its words. Some words also make it change the tree
/// (`act`).
pub(crate) struct Echo;

impl Program for Echo {
    /// Does with the tree what the words say, and prints the words. With some words, this program
    /// does not report a fault, on purpose.
    fn run(
        &self,
        alloc: Global,
        words: &Words,
        tree: &mut MemoryTree,
        out: &mut MemorySink,
        err: &mut MemorySink,
    ) -> u8 {
        for i in 0..words.len() {
            match act(alloc, words.word(i), tree) {
                Ok(()) => {}
                Err(Disk) => {
                    let _ = write_all(err, b"ERROR: the tree failed\n");
                    return 2;
                }
            }
        }
        for i in 0..words.len() {
            let word = words.word(i);
            let is_taken = write_all(out, word).is_ok() && write_all(out, b"\n").is_ok();
            // with the word `deaf`, a failed stream is not reported
            if !is_taken && word != b"deaf".as_slice() {
                return 3;
            }
        }
        if words.is_empty() { 1 } else { 0 }
    }

    /// Recovers a tree: removes the file `waiting`. A file `stuck` makes this fail, and a file
    /// `growing` is longer after each recovery.
    fn recover(&self, alloc: Global, tree: &mut MemoryTree) -> bool {
        match recover(alloc, tree) {
            Ok(()) => true,
            Err(Disk) => false,
        }
    }

    /// The container of a text: what follows `#%SCHEMA: `, or None if the text does not begin with
    /// this.
    fn container_of(&self, alloc: Global, text: &[u8]) -> Result<Option<Vec<u8>>, AllocError> {
        match text.strip_prefix(b"#%SCHEMA: ") {
            Some(rest) => Ok(Some(Vec::from_slice(alloc, rest)?)),
            None => Ok(None),
        }
    }
}

/// What a word makes the program do with the tree.
#[derive(Clone, Copy)]
enum Deed {
    /// Makes the file `made` under its final name, and syncs it only afterwards.
    Careless,
    /// Makes and syncs the file under another name, and then renames it to `made`.
    Careful,
    /// Makes the file `made`, and does not sync it.
    Hasty,
    /// Syncs the names, and does not report a fault of this call.
    Silent,
    /// Puts the file `made` into the tree in memory without a counted call.
    Hidden,
    /// Reads two bytes of the file `made`.
    Read,
}

/// The words that make the program do something with the tree.
const DEEDS: [(&[u8], Deed); 6] = [
    (b"careless", Deed::Careless),
    (b"careful", Deed::Careful),
    (b"hasty", Deed::Hasty),
    (b"silent", Deed::Silent),
    (b"hidden", Deed::Hidden),
    (b"read", Deed::Read),
];

/// Does with the tree what a word says. A word that is not in `DEEDS` does nothing.
fn act(alloc: Global, word: &[u8], tree: &mut MemoryTree) -> Result<(), Disk> {
    let Some(deed) = value_named(&DEEDS, word) else {
        return Ok(());
    };
    let made = named(alloc, b"made")?;
    let waiting = named(alloc, b"waiting")?;
    perform(deed, tree, &made, &waiting)
}

/// Does a deed with the tree, given the names `made` and `waiting`.
fn perform(deed: Deed, tree: &mut MemoryTree, made: &Name, waiting: &Name) -> Result<(), Disk> {
    match deed {
        Deed::Careless => {
            make(tree, made)?;
            settle(tree, made)
        }
        Deed::Careful => {
            make(tree, waiting)?;
            settle(tree, waiting)?;
            tree.rename(waiting, made)?;
            tree.sync_names()
        }
        Deed::Hasty => make(tree, made),
        Deed::Silent => {
            let _ = tree.sync_names();
            Ok(())
        }
        Deed::Hidden => put(tree, made),
        Deed::Read => tree.read_at(made, 0, &mut [0u8; 2]),
    }
}

/// The name with these bytes. Bytes that are no name count as a fault of the tree.
fn named(alloc: Global, bytes: &[u8]) -> Result<Name, Disk> {
    match Name::read(alloc, bytes) {
        Ok(Some(name)) => Ok(name),
        _ => Err(Disk),
    }
}

/// Puts a file with one byte into the tree in memory, without a counted call.
fn put(tree: &mut MemoryTree, name: &Name) -> Result<(), Disk> {
    if tree.can_put(name) && tree.put(name, b"x").is_ok() {
        Ok(())
    } else {
        Err(Disk)
    }
}

/// Removes the file of a name, if there is one, and makes a file of one byte under this name.
fn make(tree: &mut MemoryTree, name: &Name) -> Result<(), Disk> {
    tree.remove(name)?;
    tree.create(name)?;
    tree.append(name, b"x")
}

/// Syncs a file and then the names.
fn settle(tree: &mut MemoryTree, name: &Name) -> Result<(), Disk> {
    tree.sync(name)?;
    tree.sync_names()
}

/// Removes the file `waiting`. A file `stuck` makes this fail, and a file `growing` is longer after
/// each call.
fn recover(alloc: Global, tree: &mut MemoryTree) -> Result<(), Disk> {
    tree.remove(&named(alloc, b"waiting")?)?;
    if tree.size(&named(alloc, b"stuck")?)?.is_some() {
        return Err(Disk);
    }
    let growing = named(alloc, b"growing")?;
    if tree.size(&growing)?.is_some() {
        tree.append(&growing, b"x")?;
    }
    Ok(())
}
