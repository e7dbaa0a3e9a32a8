//! World (apk-world(5)), the dependencies that the user asks for: how its entries are read, written
//! and edited. The rules are in `docs/formats.md`, "World"; how a command edits world is defined in
//! `docs/commands.md`, "`add` and `del`".

ghost use Rattle.std.specs.Prelude.{◌≡◌, ◌<◌, ◌==◌, Some, length, slice_get, IfOk, IfErr, OnOk, OnErr, IsTrue, [], None, not, if◌then◌else◌};
ghost use Rattle.dep_core.specs.Meets.{dependency};
ghost use Rattle.dep_core.specs.World.{IsWorldSortedByName, has_dependency_named, world_with_dependency_put_in_name_order, world_without_name, world_of, world_text, world_with_new_dependency, world_with_words, words_between_blanks};
ghost use Rattle.base_core.specs.ByteOrder.{bytes_cmp};
ghost use Rattle.dep_core.specs.Faults.{IsWorldFault};
ghost use Rattle.dep_core.specs.DependencyText.{is_dependency, IsDependency};
ghost use Rattle.std.specs.List.Sorted.{IsBinarySearchResult, IsSearchInRange};
ghost use Rattle.std.specs.Option.{option_and_then};
ghost use Rattle.dep_core.specs.Reading.{dependency_of};

use crate::dep::Dep;
use crate::text::{append_dep, is_blank, read_dep};
use base_core::Text;
use std::alloc::{AllocError, Global};
use std::collections::BTreeMap;
use std::marker::Model;
use version_core::{Op, Version};

/// Why the text of a world was not read.
#[derive(Clone, Copy, Debug, PartialEq, Eq)]
pub enum WorldFault {
    /// `line` is the first line, counted from 1, with an entry that is no dependency or that
    /// repeats the name of an entry before it.
    Bad { line: u64 },
    /// Out of memory.
    Memory,
}

impl From<AllocError> for WorldFault {
    ghost use Rattle.std.specs.Prelude.{◌≡◌};
    ghost use Rattle.dep_core.specs.declared.world.WorldFault.TheVariants.{Memory};

    ghost from_gives = { λ _ fault. fault ≡ Memory };

    /// Running out of memory is the fault `Memory`.
    fn from(_: AllocError) -> WorldFault {
        WorldFault::Memory
    }
}

/// The dependencies that the user asks for (apk-world(5)), in byte order of their names, one per
/// name.
#[derive(Drop)]
pub struct World {
    /// The allocator for further entries.
    alloc: Global,
    /// The entries of world, in byte order of their names, each name once.
    entries: Vec<Entry>,
}

impl Model for World {
    ghost use Rattle.std.specs.Prelude.{List};
    ghost use Rattle.dep_core.specs.Dependency.{Dependency};
    ghost use Rattle.dep_core.specs.World.{IsWorldSortedByName};

    ghost Value = { List Dependency };

    // In contracts a world is the list of its dependencies.
    ghost view = { λ world. world.entries.items };

    // Each entry is a valid dependency, and each name occurs once, in byte order.
    ghost invariant = { λ world. IsWorldSortedByName world.entries.items };
}

impl World {
    /// The world that a text denotes. The text has the texts of dependencies, separated by spaces,
    /// tabs and line ends.
    pub fn read(alloc: Global, bytes: &[u8]) -> Result<World, WorldFault>
        // On Ok, the world is that of the text.
        ensures ok { IfOk result (λ world. world_of bytes.now ≡ Ok world) }
        // An error is that of the definition, or out of memory.
        ensures bad { IfErr result (λ fault. IsWorldFault fault (world_of bytes.now)) }
        // The result has each name once, in byte order.
        ensures world { IfOk result (λ world. IsWorldSortedByName world) }
    {
        let mut found = Found::new(alloc);
        let mut line = 0;
        for text in bytes.split(|byte| *byte == b'\n') {
            line += 1;
            if !found.add_line(text)? {
                return Err(WorldFault::Bad { line });
            }
        }
        let entries = found.into_entries()?;
        Ok(World { alloc, entries })
    }

    /// Replaces the entry with the name of `dep` by `dep`, or inserts `dep` in the order of the
    /// names if there is no such entry. A call that fails changes nothing.
    pub fn add(&mut self, dep: &Dep<'_>) -> Result<(), AllocError>
        // On Ok, the entries have the dependency, instead of an entry with the same name.
        ensures ok { OnOk result (self.new
            ≡ world_with_dependency_put_in_name_order (dependency dep.now) self.old) }
        // After an error, world is unchanged.
        ensures err { OnErr result (self.new ≡ self.old) }
    {
        let entry = Entry::of(self.alloc, dep)?;
        put(&mut self.entries, entry)
    }

    /// Removes the entry with this name, and returns whether there was such an entry.
    pub fn del(&mut self, name: &[u8]) -> bool
        // The result says whether an entry had the name.
        ensures found { result ≡ has_dependency_named name.now self.old }
        // The other entries remain.
        ensures rest { self.new ≡ world_without_name name.now self.old }
    {
        take_out(&mut self.entries, name)
    }

    /// The text of this world, which has a line for each entry. `read` reads it as this world.
    pub fn text(&self, alloc: Global) -> Result<Text, AllocError>
        // On Ok, the text is that of the world.
        ensures text { IfOk result (λ text. text ≡ world_text self.now) }
        // Each name occurs once, in byte order.
        ensures world { IsWorldSortedByName self.now }
    {
        let mut text = Vec::new(alloc);
        for entry in &self.entries {
            append_dep(&mut text, &entry.dep())?;
            text.push(b'\n')?;
        }
        Text::of(alloc, &text)
    }

    /// How many entries there are.
    pub fn len(&self) -> usize
        ensures value { result ≡ length self.now }
        // Each name occurs once, in byte order.
        ensures world { IsWorldSortedByName self.now }
    {
        self.entries.len()
    }

    /// Whether there is no entry.
    pub fn is_empty(&self) -> bool
        ensures { result ≡ (length self.now == 0) }
    {
        self.entries.is_empty()
    }

    /// An entry, by its index.
    pub fn entry(&self, i: usize) -> Dep<'_>
        // The index is that of an element.
        requires { i < length self.now }
        // The result is the entry with this index.
        ensures { slice_get self.now i ≡ Some (dependency result) }
    {
        self.entries[i].dep()
    }
}

/// A dependency that owns its parts.
#[derive(Drop)]
pub struct Entry {
    // The name of the dependency.
    name: Text,
    /// The wanted version, if one is named.
    version: Option<Text>,
    /// The version operator, such as `>=`.
    op: Op,
    /// Whether the entry excludes the packages that meet it.
    conflict: bool,
    /// The tag of the repositories whose packages are preferred, if a tag is given.
    tag: Option<Text>,
}

impl Model for Entry {
    ghost use Rattle.std.specs.Prelude.{IsTrue};
    ghost use Rattle.dep_core.specs.Dependency.{Dependency, dependency_from_parts};
    ghost use Rattle.dep_core.specs.DependencyText.{is_dependency};

    ghost Value = { Dependency };

    // In contracts an entry is the dependency that it represents.
    ghost view = { λ e. dependency_from_parts e.name e.version e.op e.conflict e.tag };

    // The parts are those of a valid dependency.
    ghost invariant = { λ e.
        IsTrue (is_dependency (dependency_from_parts e.name e.version e.op e.conflict e.tag)) };
}

impl Entry {
    /// The entry that owns a copy of a dependency's parts.
    pub fn of(alloc: Global, dep: &Dep<'_>) -> Result<Entry, AllocError>
        // On Ok, the entry represents the given dependency.
        ensures value { IfOk result (λ entry. entry ≡ dependency dep.now) }
        // Each `Dep` is a valid dependency.
        ensures grammar { IsTrue (is_dependency (dependency dep.now)) }
    {
        let name = Text::of(alloc, dep.name)?;
        let version = match &dep.version {
            Some(version) => Some(Text::of(alloc, version.text())?),
            None => None,
        };
        let tag = match dep.tag {
            Some(tag) => Some(Text::of(alloc, tag)?),
            None => None,
        };
        Ok(Entry {
            name,
            version,
            op: dep.op,
            conflict: dep.conflict,
            tag,
        })
    }

    /// The dependency that the entry represents; it borrows the entry's texts.
    pub fn dep(&self) -> Dep<'_>
        ensures { dependency result ≡ self.now }
    {
        let version = match &self.version {
            Some(version) => Version::read(version.as_bytes()),
            None => None,
        };
        let tag = self.tag.as_ref().map(|tag| tag.as_bytes());
        Dep {
            name: self.name.as_bytes(),
            version,
            op: self.op,
            conflict: self.conflict,
            tag,
        }
    }

    /// The name of the dependency.
    pub fn name(&self) -> &[u8]
        ensures { result.now ≡ self.now.name }
    {
        self.name.as_bytes()
    }
}

/// Replaces the entry with the name of `entry` by `entry`, or inserts `entry` in the order of the
/// names if there is no such entry. A call that fails changes nothing.
pub fn put(entries: &mut Vec<Entry>, entry: Entry) -> Result<(), AllocError>
    // The entries are those of a world: each name once, in byte order.
    requires world { IsWorldSortedByName entries.old.items }
    // The entry is a valid dependency.
    requires dependency { IsDependency entry }
    // On Ok, the entries have `entry`, instead of an entry with the same name.
    ensures ok { OnOk result (entries.new.items
        ≡ world_with_dependency_put_in_name_order entry entries.old.items) }
    // After an error, the entries are unchanged.
    ensures err { OnErr result (entries.new.items ≡ entries.old.items) }
    // Afterwards each name still occurs once, in byte order.
    ensures still_world { IsWorldSortedByName entries.new.items }
{
    match index_of(entries, entry.name()) {
        Ok(index) => entries[index] = entry,
        Err(index) => entries.insert(index, entry)?,
    }
    Ok(())
}

/// Removes the entry with this name, and returns whether there was such an entry.
pub fn take_out(entries: &mut Vec<Entry>, name: &[u8]) -> bool
    // The entries are those of a world: each name once, in byte order.
    requires { IsWorldSortedByName entries.old.items }
    // The result says whether an entry had the name.
    ensures found { result ≡ has_dependency_named name.now entries.old.items }
    // The entry with the name is removed, and the others remain.
    ensures rest { entries.new.items ≡ world_without_name name.now entries.old.items }
    // Afterwards each name still occurs once, in byte order.
    ensures still_world { IsWorldSortedByName entries.new.items }
{
    match index_of(entries, name) {
        Ok(index) => {
            entries.remove(index);
            true
        }
        Err(_) => false,
    }
}

/// The index of the entry with this name. If there is none, the error is the index at which an
/// entry with this name would be inserted.
fn index_of(entries: &[Entry], name: &[u8]) -> Result<usize, usize>
    // The index is within the list, or at its end.
    ensures within { IsSearchInRange result (length entries.now) }
    // Ok has the index of an entry with this name, an error that at which one would be inserted.
    ensures index { IsBinarySearchResult
        (λ entry. bytes_cmp entry.name name.now) entries.now result }
{
    entries.binary_search_by(|entry| entry.name().cmp(name))
}

/// The entries that were found so far in the text of a world, in byte order of their names.
#[derive(Drop)]
pub struct Found<'a> {
    /// The allocator for further entries.
    alloc: Global,
    /// Maps the name of each entry to the entry.
    by_name: BTreeMap<&'a [u8], Entry>,
}

impl<'a> Model for Found<'a> {
    ghost use Rattle.std.specs.Prelude.{List};
    ghost use Rattle.std.specs.BTreeMap.{values};
    ghost use Rattle.dep_core.specs.Dependency.{Dependency};
    ghost use Rattle.dep_core.specs.Found.{IsKeyedByName};
    ghost use Rattle.dep_core.specs.World.{IsWorldSortedByName};

    ghost Value = { List Dependency };

    // In contracts this is the list of the dependencies found so far.
    ghost view = { λ found. values found.by_name };

    // Each entry is under its own name, and the entries are a world.
    ghost invariant = { λ found. IsKeyedByName found.by_name.entries
        × IsWorldSortedByName (values found.by_name) };
}

impl<'a> Found<'a> {
    /// The object at the beginning, when no entry is found.
    pub fn new(alloc: Global) -> Found<'a>
        ensures { result ≡ [] }
    {
        Found {
            alloc,
            by_name: BTreeMap::new(alloc),
        }
    }

    /// Adds the entries of a line, and returns whether each word of the line is a dependency whose
    /// name no entry before it has.
    pub fn add_line(&mut self, line: &'a [u8]) -> Result<bool, AllocError>
        // On `Ok(true)`, the entries are those of the definition. On `Ok(false)`, the definition
        // gives None, which means that the line is bad.
        ensures { IfOk result (λ good.
            world_with_words self.old (words_between_blanks line.entry.now)
            ≡ (if good then Some self.new else None)) }
    {
        for word in line.split(|byte| is_blank(*byte)) {
            if word.is_empty() {
                continue;
            }
            if !self.add_word(word)? {
                return Ok(false);
            }
        }
        Ok(true)
    }

    /// Adds the entry that a word denotes, and returns whether the word is a dependency whose name
    /// no entry before it has.
    fn add_word(&mut self, word: &'a [u8]) -> Result<bool, AllocError>
        // On `Ok(true)`, the entries are those of the definition. On `Ok(false)`, the definition
        // gives None, which means that the word is bad.
        ensures { IfOk result (λ good.
            option_and_then (world_with_new_dependency self.old) (dependency_of word.entry.now)
            ≡ (if good then Some self.new else None)) }
    {
        match read_dep(word) {
            Some(dep) => self.add(&dep),
            None => Ok(false),
        }
    }

    /// Adds an entry for `dep`, and returns whether no entry had its name before.
    fn add(&mut self, dep: &Dep<'a>) -> Result<bool, AllocError>
        // On Ok, the result says whether no entry had the name before.
        ensures new { IfOk result (λ new. new
            ≡ not (has_dependency_named dep.now.name.now self.old)) }
        // On Ok, the entries have the dependency, instead of an entry with the same name.
        ensures added { OnOk result (self.new
            ≡ world_with_dependency_put_in_name_order (dependency dep.now) self.old) }
    {
        let entry = Entry::of(self.alloc, dep)?;
        let old = self.by_name.insert(dep.name, entry)?;
        Ok(old.is_none())
    }

    /// All entries, in byte order of their names.
    pub fn into_entries(self) -> Result<Vec<Entry>, AllocError>
        // On Ok, the result has the entries that were found.
        ensures value { IfOk result (λ entries. entries.items ≡ self.entry) }
        // Each name occurs once, in byte order.
        ensures world { IsWorldSortedByName self.entry }
    {
        self.by_name.into_values().collect(self.alloc)
    }
}
