//! The images of a store: the stores that a crash may leave, each picked by a number (`choice`, of
//! which the part `pick` picks the map of names).
//! The rule is in `docs/crash-safety.md`, "Images of the tree in memory".
ghost use Rattle.std.specs.Prelude.{◌≡◌, ◌+◌, ◌-◌, ◌<◌, ◌≤◌, ◌^◌, ℕ, [], List, true, false, if◌then◌else◌, IfOk, OnOk, length, take};
ghost use Rattle.std.specs.List.{AllWithin};
ghost use Rattle.std.specs.Str.{bytes_eq};
ghost use Rattle.base_core.specs.Tree.{TreeState, files_of};
ghost use Rattle.base_core.specs.Undone.{IsAfterCrash, IsCrashMap, lead_to_same_file, with_change_replayed};
ghost use Rattle.base_core.specs.Files.{NameMap};
ghost use Rattle.tree_memory.specs.Changes.{empty_state, state_after_changes, step, can_record_change};
ghost use Rattle.tree_memory.specs.Images.{maps_newest_first, syncs_names, map_count_after_change, is_bit_set_at, is_change_undone, most_changes_with_all_subsets, crash_map_pick_count, crash_map_pick_count_of, picked_crash_map, IsImageOf, HasImageNames, crash_bytes, stored_file, HasNames};
ghost use Rattle.tree_memory.specs.Stores.{store_state};
ghost use Rattle.tree_memory.specs.Table.{lookup};

use crate::store::{Change, Store, Stored};
use crate::table::NameTable;
use base_core::Name;
use std::alloc::{AllocError, Global};

/// If at most this many changes of names followed the last sync of the names, there is a number
/// for each subset of these changes: it picks the map of names in which exactly these are undone.
const FEW_CHANGES: u64 = 5;

impl Store {
    /// How many maps of names there are: the current one, and the older ones since the names were
    /// last synced.
    pub fn maps(&self) -> u64
        // The number of maps of names in the newest state.
        ensures count { result ≡ length (maps_newest_first (store_state self.now)) }
        // The count is not 0.
        ensures some { 0 < result }
    {
        // An empty tree has one map of names. Each recorded change adds a map, keeps the maps, or
        // leaves only one.
        let mut maps = 1;
        for change in &self.changes {
            maps = maps_after(maps, change);
        }
        maps
    }

    /// How many numbers pick a map of names that a crash may leave: the numbers below the result.
    pub fn picks(&self) -> u64
        ensures { result ≡ crash_map_pick_count_of (store_state self.now) }
    {
        crash_map_pick_count(self.maps() - 1)
    }

    /// The store after the crash that a number chooses: the number picks the map of names and the
    /// contents of unsynced files.
    pub fn image(&self, alloc: Global, choice: u64) -> Result<Store, AllocError>
        // The files of the image are those that `choice` picks.
        ensures files { IfOk result (λ image.
            IsImageOf choice (store_state self.now) (files_of (store_state image))) }
        // A crash of this store can leave the state of the image.
        ensures crash { IfOk result (λ image.
            IsAfterCrash (store_state self.now) (store_state image)) }
    {
        // How many changes of names a crash may undo.
        let changes = self.maps() - 1;
        // How many numbers pick a map of names.
        let picks = crash_map_pick_count(changes);
        // What unsynced files contain: as read (0), no bytes (1), or bytes of value 255 (2).
        let way = choice / picks % 3;
        let names = self.image_names(alloc, changes, choice % picks)?;
        // The image is a new store, into which each file of the picked map is put as synced.
        let mut image = Store::new(alloc);
        for entry in &names.entries {
            let bytes = crash_bytes(alloc, &self.files[entry.file], way)?;
            image.put(&entry.name, bytes)?;
        }
        Ok(image)
    }

    // The names of the image that a number picks: the picked map of names, or the current one if
    // the picked one has a file as a folder. `changes` is how many changes of names may be undone.
    fn image_names(&self, alloc: Global, changes: u64, pick: u64) -> Result<NameTable, AllocError>
        // Each change of names since the last sync of the names left one older map.
        requires { changes ≡ length (store_state self.now).older }
        // The result has the names of the image of the specification.
        ensures { IfOk result (λ names.
            HasImageNames pick (store_state self.now) names.entries.items) }
    {
        let picked = self.picked_names(alloc, changes, pick)?;
        if picked.has_no_folder() {
            return Ok(picked);
        }
        // The current names: those after all recorded changes.
        let Replayed { names, .. } = names_after(alloc, &self.changes)?;
        Ok(names)
    }

    // The map of names that a number picks. `changes` is how many changes of names followed the
    // last sync of the names.
    fn picked_names(&self, alloc: Global, changes: u64, pick: u64) -> Result<NameTable, AllocError>
        // Each change of names since the last sync of the names left one older map.
        requires { changes ≡ length (store_state self.now).older }
        // Each name leads where it leads in the picked map of the specification.
        ensures { IfOk result (λ names. (q : List ℕ) → lookup names.entries.items q
            ≡ picked_crash_map pick (store_state self.now) q) }
    {
        // Both tables begin with the names at the last sync. `names` then gets each later change,
        // and `picked` only those that are not undone.
        // How many of the recorded changes come up to the last sync of the names.
        let start = last_sync(&self.changes);
        let first = names_after(alloc, &self.changes[..start])?;
        let second = names_after(alloc, &self.changes[..start])?;
        let Replayed {
            names: mut picked,
            ..
        } = first;
        let Replayed {
            mut names,
            mut made,
        } = second;
        // How many maps of names there are so far; a change of names has the number `maps - 1`.
        let mut maps = 1;
        for i in start..self.changes.len() {
            let change = &self.changes[i];
            let undone = is_change_undone(changes, pick, maps - 1);
            change_picked(alloc, &mut picked, &names, made, change, undone)?;
            maps = maps_after(maps, change);
            made = replay(alloc, &mut names, made, change)?;
        }
        Ok(picked)
    }
}

// How many numbers pick a map of names, given how many changes of names may be undone.
fn crash_map_pick_count(changes: u64) -> u64
    // The count of the specification.
    ensures count { result ≡ crash_map_pick_count changes }
    // The count is not 0.
    ensures some { 0 < result }
{
    // One number for each subset of few changes.
    if changes <= FEW_CHANGES {
        return 1 << changes;
    }
    // Of more changes: a number for each count of newest changes that are undone, from 0 to all,
    // and a number for each change that is undone alone.
    changes.saturating_mul(2).saturating_add(1)
}

// Whether the map that `pick` picks lacks a change of names. `changes` is how many changes may be
// undone, and `number` is the number of the change, the oldest as 0.
fn is_change_undone(changes: u64, pick: u64, number: u64) -> bool
    ensures { result ≡ is_change_undone changes pick number }
{
    // Of few changes, each has one binary digit of `pick`, the newest the lowest digit.
    if changes <= FEW_CHANGES {
        return is_bit_set_at(pick, changes.saturating_sub(number).saturating_sub(1));
    }
    // Otherwise a small `pick` undoes so many of the newest changes.
    if pick <= changes {
        return changes - pick <= number;
    }
    // A larger `pick` undoes one change alone.
    pick - changes - 1 == number
}

// Whether a binary digit of a number is 1. The place of the digit is counted from the lowest as 0.
fn is_bit_set_at(n: u64, place: u64) -> bool
    ensures { result ≡ is_bit_set_at n place }
{
    // `n` without its lowest digits, and how many more of the digits are to be removed.
    let mut left = n;
    let mut places = place;
    while places > 0 {
        left /= 2;
        places -= 1;
    }
    left % 2 == 1
}

// How many maps of names there are after one more change, if there were `maps` before it.
fn maps_after(maps: u64, change: &Change) -> u64
    // The count has 64 bits, and the change may add one map.
    requires { maps < 2 ^ 64 - 1 }
    ensures { result ≡ map_count_after_change change.now maps }
{
    match change {
        Change::Put { .. } => 1,
        Change::Create { .. } => maps + 1,
        Change::Append { .. } => maps,
        Change::Sync { .. } => maps,
        Change::Rename { .. } => maps + 1,
        Change::Remove { .. } => maps + 1,
        Change::SyncNames => 1,
        Change::Stay => maps,
    }
}

// Whether a change syncs the names, so that no older map of names is left.
fn syncs_names(change: &Change) -> bool
    ensures { result ≡ syncs_names change.now }
{
    match change {
        Change::Put { .. } => true,
        Change::Create { .. } => false,
        Change::Append { .. } => false,
        Change::Sync { .. } => false,
        Change::Rename { .. } => false,
        Change::Remove { .. } => false,
        Change::SyncNames => true,
        Change::Stay => false,
    }
}

// How many of these changes come up to the last change that synced the names, with this change. The
// result is 0 if no change synced the names.
fn last_sync(changes: &[Change]) -> usize
    // Not more than there are changes.
    ensures within { result ≤ length changes.now }
    // In the state after these first changes there is no older map of names.
    ensures synced { (contents : List (List ℕ))
        → (state_after_changes contents empty_state (take result changes.now)).older ≡ [] }
    // None of the later changes syncs the names.
    ensures behind { AllWithin (λ c. syncs_names c ≡ false) changes.now result
        (length changes.now) }
{
    let mut n = changes.len();
    while n > 0 {
        if syncs_names(&changes[n - 1]) {
            return n;
        }
        n -= 1;
    }
    n
}

// The names to which some changes, replayed on an empty tree, lead, and how many files they made.
#[derive(Drop)]
struct Replayed {
    // The names after the changes.
    names: NameTable,
    // How many files the changes made.
    made: usize,
}

// Replays changes on an empty tree: the names after them, and how many files they made.
fn names_after(alloc: Global, changes: &[Change]) -> Result<Replayed, AllocError>
    // The table has the names of the state after these changes, and `made` its number of files.
    ensures names { IfOk result (λ replayed. (contents : List (List ℕ))
        → HasNames (state_after_changes contents empty_state changes.now) replayed.names.entries.items
        replayed.made) }
    // Each change makes at most one file.
    ensures few { IfOk result (λ replayed. replayed.made ≤ length changes.now) }
{
    let mut names = NameTable::new(alloc);
    let mut made = 0;
    for change in changes {
        made = replay(alloc, &mut names, made, change)?;
    }
    Ok(Replayed { names, made })
}

// Applies one more change to the picked names, unless it is undone. `names` are the current names
// before this change, and `made` is how many files were made before it.
fn change_picked(
    alloc: Global,
    picked: &mut NameTable,
    names: &NameTable,
    made: usize,
    change: &Change,
    undone: bool,
) -> Result<(), AllocError>
    // The picked names are as before if the change is undone. Otherwise each name whose file the
    // change replaces in a state `v` with these names leads where it leads after the change.
    ensures { OnOk result ((contents : List (List ℕ)) (v : TreeState)
        → HasNames v names.now.entries.items made → can_record_change contents change.now v ≡ true
        → (q : List ℕ) → lookup picked.new.entries.items q
        ≡ (if undone then lookup picked.old.entries.items q
        else with_change_replayed v.names (step contents change.now v).names
        (lookup picked.old.entries.items) q)) }
{
    if undone {
        return Ok(());
    }
    keep_change(alloc, picked, names, made, change)
}

// Applies one more change to the picked names. `names` are the current names before this change,
// and `made` is how many files were made before it.
fn keep_change(
    alloc: Global,
    picked: &mut NameTable,
    names: &NameTable,
    made: usize,
    change: &Change,
) -> Result<(), AllocError>
    // Each name whose file the change replaces in a state `v` with these names leads where it leads
    // after the change. All other picked names lead where they led.
    ensures { OnOk result ((contents : List (List ℕ)) (v : TreeState)
        → HasNames v names.now.entries.items made → can_record_change contents change.now v ≡ true
        → (q : List ℕ) → lookup picked.new.entries.items q
        ≡ with_change_replayed v.names (step contents change.now v).names
        (lookup picked.old.entries.items) q) }
{
    match change {
        Change::Put { name, .. } => lead(alloc, picked, names, name, Some(made)),
        Change::Create { name } => lead(alloc, picked, names, name, Some(made)),
        Change::Append { .. } => Ok(()),
        Change::Sync { .. } => Ok(()),
        Change::Rename { from, to } => {
            if from.as_bytes() == to.as_bytes() {
                return Ok(());
            }
            let file = names.find(from.as_bytes());
            if file.is_some() {
                lead(alloc, picked, names, from, None)?;
                lead(alloc, picked, names, to, file)?;
            }
            Ok(())
        }
        Change::Remove { name } => lead(alloc, picked, names, name, None),
        Change::SyncNames => Ok(()),
        Change::Stay => Ok(()),
    }
}

// Lets a picked name lead to a file, or removes this name if `file` is None. If the name leads to
// the same file in `names` already, the picked names are unchanged.
fn lead(
    alloc: Global,
    picked: &mut NameTable,
    names: &NameTable,
    name: &Name,
    file: Option<usize>,
) -> Result<(), AllocError>
    // Only this name is changed in the picked names, and only if it leads elsewhere in `names`.
    ensures { OnOk result ((q : List ℕ) → lookup picked.new.entries.items q
        ≡ (if bytes_eq q name.now then
        (if lead_to_same_file (lookup names.now.entries.items name.now) file then
        lookup picked.old.entries.items q else file)
        else lookup picked.old.entries.items q)) }
{
    // The change does not move this name: it leads to the same file, or to none, in `names`.
    if names.find(name.as_bytes()) == file {
        return Ok(());
    }
    match file {
        None => picked.remove(name.as_bytes()),
        Some(file) => picked.set(name.copy(alloc)?, file)?,
    }
    Ok(())
}

// Applies one more change to the names, and returns how many files were made after it. `made` is
// how many were made before it.
fn replay(
    alloc: Global,
    names: &mut NameTable,
    made: usize,
    change: &Change,
) -> Result<usize, AllocError>
    // The count has 64 bits, and the change may make one file.
    requires { made < 2 ^ 64 - 1 }
    // The change makes at most one file.
    ensures bound { IfOk result (λ n. n ≤ made + 1) }
    // If the table had the names of a state, it has those of the state after the change.
    ensures names { IfOk result (λ n. (contents : List (List ℕ)) (v : TreeState)
        → HasNames v names.old.entries.items made
        → HasNames (step contents change.now v) names.new.entries.items n) }
{
    // A change of bytes alone keeps the names, and so do syncs.
    match change {
        Change::Put { name, .. } => {
            names.set(name.copy(alloc)?, made)?;
            Ok(made + 1)
        }
        Change::Create { name } => {
            names.set(name.copy(alloc)?, made)?;
            Ok(made + 1)
        }
        Change::Append { .. } => Ok(made),
        Change::Sync { .. } => Ok(made),
        Change::Rename { from, to } => {
            if let Some(file) = names.find(from.as_bytes()) {
                names.remove(from.as_bytes());
                names.set(to.copy(alloc)?, file)?;
            }
            Ok(made)
        }
        Change::Remove { name } => {
            names.remove(name.as_bytes());
            Ok(made)
        }
        Change::SyncNames => Ok(made),
        Change::Stay => Ok(made),
    }
}

// The contents of a file after a crash: its bytes if it is synced. Otherwise `way` chooses its
// bytes as read (0), no bytes (1), or as many bytes of value 255 (2).
fn crash_bytes(alloc: Global, file: &Stored, way: u64) -> Result<Vec<u8>, AllocError>
    ensures { IfOk result (λ bytes. bytes.items ≡ crash_bytes way (stored_file file.now)) }
{
    if file.synced || way == 0 {
        return Vec::from_slice(alloc, &file.bytes);
    }
    if way == 1 {
        return Ok(Vec::new(alloc));
    }
    Vec::from_elem(alloc, 255, file.bytes.len())
}

/// A law: if at most 5 changes of names followed the last sync of the names, some number picks each
/// map of names that a crash may leave.
pub fn each_map_of_few_changes_is_picked()
    ensures { (v : TreeState) (map : NameMap) → length v.older ≤ most_changes_with_all_subsets
        → IsCrashMap v map
        → (pick : ℕ) × (pick < crash_map_pick_count_of v) × (picked_crash_map pick v ≡ map) }
{}

/// A law: the number 0 picks the current map of names, in which no change is undone.
pub fn no_change_is_undone_by_0()
    ensures { (v : TreeState) → picked_crash_map 0 v ≡ v.names }
{}
