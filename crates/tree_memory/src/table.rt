//! A table of names in byte order, each with the number of its file.
//! Names, folders and the order of a listing are those of `docs/crash-safety.md`, "A tree at one
//! moment".
ghost use Rattle.std.specs.Prelude.{◌≡◌, ◌↔◌, ℕ, [], ◌∷◌, ◌++◌, false, List, IsTrue, IsSome, IfOk, IfErr, OnOk, OnErr};
ghost use Rattle.std.specs.Ordering.{nat_cmp, is_lt};
ghost use Rattle.std.specs.Str.{bytes_eq};
ghost use Rattle.std.specs.Cmp.Lexicographic.{slice_cmp};
ghost use Rattle.base_core.specs.Files.{put_name, drop_name, HasNoFileAsFolder};
ghost use Rattle.tree_memory.specs.Table.{IsSortedNameTable, MakesNoFolderOfAnother, lookup, names_of, IsNameAtPlace, IsInsertionPlace, IsStartOfFolder, AreTableNamesBelow, HasFolderOtherThan, HasNameBelowOtherThan};

use base_core::{Name, Names, is_folder_of};
use std::alloc::{AllocError, Global};
use std::cmp::Ordering;

/// A name, and the number of the file that it leads to.
#[derive(Drop)]
pub struct NameAndFile {
    /// The name.
    pub name: Name,
    /// The number of its file.
    pub file: usize,
}

/// The names of a tree, each with the number of its file, in byte order.
#[derive(Drop)]
pub struct NameTable {
    /// The entries in the byte order of their names, each name once.
    pub entries: Vec<NameAndFile>,
    // The invariant: the entries are in the byte order of their names, without repetition.
    pub ghost rising: { IsSortedNameTable entries.items },
}

impl NameTable {
    /// The table without names.
    pub fn new(alloc: Global) -> NameTable
        ensures { result.entries.items ≡ [] }
    {
        NameTable {
            entries: Vec::new(alloc),
        }
    }

    /// The number of the file that a name leads to, or None if the name is not in the table.
    pub fn find(&self, name: &[u8]) -> Option<usize>
        ensures { result ≡ lookup self.now.entries.items name.now }
    {
        match self.place(name) {
            Ok(i) => Some(self.entries[i].file),
            Err(_) => None,
        }
    }

    // Ok with the place of the name in the table, or an error with the place where it would be
    // inserted.
    fn place(&self, name: &[u8]) -> Result<usize, usize>
        // Ok has the place of the entry of this name, counted from 0.
        ensures found { IfOk result (λ i. IsNameAtPlace self.now.entries.items i name.now) }
        // An error has the place at which an entry of this name would be inserted.
        ensures absent { IfErr result (λ i. IsInsertionPlace self.now.entries.items i name.now) }
    {
        self.entries
            .binary_search_by(|entry| entry.name.as_bytes().cmp(name))
    }

    /// Lets a name lead to the file of this number, and adds the name if it is absent. If out of
    /// memory, nothing changes.
    pub fn set(&mut self, name: Name, file: usize) -> Result<(), AllocError>
        // On success the name leads to this number, and all other names lead where they led.
        ensures ok { OnOk result ((q : List ℕ)
            → lookup self.new.entries.items q
            ≡ put_name (lookup self.old.entries.items) name file q) }
        // An error leaves the table as it was.
        ensures err { OnErr result (self.new.entries.items ≡ self.old.entries.items) }
    {
        match self.place(name.as_bytes()) {
            Ok(i) => self.entries[i].file = file,
            Err(i) => self.entries.insert(i, NameAndFile { name, file })?,
        }
        Ok(())
    }

    /// Removes a name; if it is absent, nothing changes.
    pub fn remove(&mut self, name: &[u8])
        // The name is absent, and all other names lead where they led.
        ensures { (q : List ℕ) → lookup self.new.entries.items q
            ≡ drop_name (lookup self.old.entries.items) name.now q }
    {
        if let Ok(i) = self.place(name) {
            let _ = self.entries.remove(i);
        }
    }

    /// Whether the name may be added: no name of the table, other than `but`, is a folder of this
    /// name or is below it. `but` is the name that a rename removes; for a put it is `name` itself.
    pub fn fits(&self, name: &[u8], but: &[u8]) -> bool
        ensures { IsTrue result ↔ MakesNoFolderOfAnother self.now.entries.items name.now but.now }
    {
        if self.has_folder_of(name, but) {
            return false;
        }
        !self.has_below(name, but)
    }

    /// Whether no name of the table is a folder of another.
    pub fn has_no_folder(&self) -> bool
        ensures { IsTrue result ↔ HasNoFileAsFolder (lookup self.now.entries.items) }
    {
        for entry in &self.entries {
            let name = entry.name.as_bytes();
            if self.has_folder_of(name, name) {
                return false;
            }
        }
        true
    }

    // Whether a folder of the path `name` is itself a name of the table, other than `but`.
    fn has_folder_of(&self, name: &[u8], but: &[u8]) -> bool
        ensures { IsTrue result ↔ HasFolderOtherThan self.now.entries.items name.now but.now }
    {
        for (i, byte) in name.iter().enumerate() {
            if *byte == b'/' && self.has_other(&name[..i], but) {
                return true;
            }
        }
        false
    }

    // Whether the name is in the table, and is not `but`.
    fn has_other(&self, name: &[u8], but: &[u8]) -> bool
        ensures { IsTrue result ↔ (IsSome (lookup self.now.entries.items name.now)
            × (bytes_eq name.now but.now ≡ false)) }
    {
        if name == but {
            return false;
        }
        self.find(name).is_some()
    }

    // Whether a name of the table, other than `but`, is below the folder.
    fn has_below(&self, folder: &[u8], but: &[u8]) -> bool
        ensures { IsTrue result ↔ HasNameBelowOtherThan self.now.entries.items folder.now but.now }
    {
        // The names below the folder are next to each other in the table, from this place on.
        let start = self.start(folder);
        for i in start..self.entries.len() {
            let name = self.entries[i].name.as_bytes();
            if !is_folder_of(folder, name) {
                return false;
            }
            if name != but {
                return true;
            }
        }
        false
    }

    // The place in the table, counted from 0, at which the names below a folder begin, or would
    // begin if there were any.
    fn start(&self, folder: &[u8]) -> usize
        ensures { IsStartOfFolder self.now.entries.items result folder.now }
    {
        self.entries
            .partition_point(|entry| is_before(entry.name.as_bytes(), folder))
    }

    /// All names, in byte order.
    pub fn list(&self, alloc: Global) -> Result<Names, AllocError>
        ensures { IfOk result (λ names. names ≡ names_of self.now.entries.items) }
    {
        let mut names = Names::new(alloc);
        for entry in &self.entries {
            names.push(entry.name.copy(alloc)?)?;
        }
        Ok(names)
    }

    /// The names below a folder, at any depth, in byte order.
    pub fn list_below(&self, alloc: Global, folder: &[u8]) -> Result<Names, AllocError>
        ensures { IfOk result (AreTableNamesBelow self.now.entries.items folder.now) }
    {
        let mut names = Names::new(alloc);
        // The names below the folder are next to each other in the table, from this place on.
        let start = self.start(folder);
        for i in start..self.entries.len() {
            let name = &self.entries[i].name;
            if !is_folder_of(folder, name.as_bytes()) {
                return Ok(names);
            }
            names.push(name.copy(alloc)?)?;
        }
        Ok(names)
    }
}

// Whether a name is, in byte order, before the text `FOLDER/`, with which the names below begin.
fn is_before(name: &[u8], folder: &[u8]) -> bool
    ensures { result ≡ is_lt (slice_cmp nat_cmp name.now (folder.now ++ 47 ∷ [])) }
{
    match against_folder(name, folder) {
        Ordering::Less => true,
        Ordering::Equal => false,
        Ordering::Greater => false,
    }
}

// How a name compares, in byte order, with the text `FOLDER/`.
fn against_folder(name: &[u8], folder: &[u8]) -> Ordering
    ensures { result ≡ slice_cmp nat_cmp name.now (folder.now ++ 47 ∷ []) }
{
    name.iter().cmp(folder.iter().chain(b"/"))
}
