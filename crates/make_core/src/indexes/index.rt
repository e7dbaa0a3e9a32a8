//! Makes an index of packages (apk(8), `mkndx`): reads the packages that operands name, sorts their
//! entries, and writes the container.
//! The rule is in `docs/commands.md`, "`mkndx PACKAGE..`", with the refusals in their order; the
//! fields in `docs/formats.md`, "Schemas", table 8.

ghost use Rattle.adb_view.specs.Schema.{shape_of, table};
ghost use Rattle.pkg_core.specs.adb_schema.Soundness.{container_fault_except_contents};
ghost use Rattle.adb_view.specs.declared.tables.Kind.TheVariants as Kinds;
ghost use Rattle.adb_view.specs.declared.tables.Which.TheVariants as Tables;
ghost use Rattle.adb_view.specs.Plain.{Plain, array_or_null, IsNormal, Plains, trimmed_object_or_null};
ghost use Rattle.adb_view.specs.Shaped.{HasShape};
ghost use Rattle.adb_copy.specs.adb_values.Drafts.{draft_with};
ghost use Rattle.adb_copy.specs.adb_write.Canonical.{payload_or_counts_at_overflow, MOST_BYTES};
ghost use Rattle.base_core.specs.Calls.{IfObservable};
ghost use Rattle.base_core.specs.Read.{OnlyReads, bytes_in};
ghost use Rattle.base_core.specs.Tree.{files_of};
ghost use Rattle.make_core.specs.Entries.{index_entry_of_package_file};
ghost use Rattle.make_core.specs.EntryOrder.{index_entry_cmp, version_of_index_entry, id_of_index_entry, name_of_index_entry};
ghost use Rattle.base_core.specs.Sorted.{sorted_by};
ghost use Rattle.base_core.specs.Files.{AreFileBytes};
ghost use Rattle.make_core.specs.Files.{EachOperandReadFindsNoFileOrFileBytes, reads_of};
ghost use Rattle.make_core.specs.Index.{first_description_or_empty, index_of_entries, value_of_index, found_entries, found_entry, made_index};
ghost use Rattle.make_core.specs.Kept.{AgreesUnlessMemory, AgreesUnlessMemoryOrDisk};
ghost use Rattle.make_core.specs.Views.{entries_view, entry_view};
ghost use Rattle.make_info.specs.Faults.{IsOverflowFault};
ghost use Rattle.make_info.specs.Reads.{Reads};
ghost use Rattle.make_info.specs.Values.{plains_of_list};
ghost use Rattle.std.specs.List.Sorted.{IsPermutation, IsSorted, IsStable};
ghost use Rattle.std.specs.Prelude.{◌≡◌, ◌≤◌, Ok, IfOk, IfErr, OnOk, length, map, ◌<◌, ◌^◌, ℕ, List, All, true, None, ◌++◌, ◌∷◌, [], Option, IfSome, IsTrue, Some, codes};
ghost use Rattle.version_core.specs.Order.{is_version, version_cmp};
ghost use Rattle.command_core.specs.Named.{are_files};
ghost use Rattle.adb_view.specs.Values.{text_in};
ghost use Rattle.adb_view.specs.declared.tables.Which.TheVariants.{PkgInfo};
ghost use Rattle.base_core.specs.ByteOrder.{bytes_cmp};
ghost use Rattle.make_info.specs.Named.{value_by_name};
ghost use Rattle.std.specs.declared.cmp.Ordering.TheVariants.{Equal, Less};

use crate::indexes::entry::Entry;
use adb_copy::{Draft, file_of};
use adb_view::{values_are_normal, values_have_their_shape};
use base_core::{Name, Tree, read_all};
use command_core::{Applet, Command, DESCRIPTION, Operands, Values, file_operands_are_files};
use make_info::MakeFault;
use pkg_core::{INDEX_WORD, sound_containers_hold_sound_values};
use std::alloc::{AllocError, Global};
use version_core::order_is_total;

/// Makes an index of the packages that the operands of a command name: the container's bytes. Each
/// package passes all its tests. The tree is unchanged, whatever is returned.
///
/// # Errors
///
/// Operand by operand, `FileMissing` or `FileBad` at the operand's place; then `TooLarge` if the
/// index exceeds a limit of the writer. `Disk` if the tree failed, and `Memory`.
pub(crate) fn make<T: Tree>(
    alloc: Global,
    command: &Command,
    tree: &mut T,
) -> Result<Vec<u8>, MakeFault>
    // The command is `mkndx`.
    requires { command.now.applet ≡ Applet.Mkndx }
    // If the tree is observable, the result is the index of its files or the first refusal, unless
    // it is out of memory or an I/O error.
    ensures made { IfObservable (T.history tree.old) (λ v.
        AgreesUnlessMemoryOrDisk (λ file. file.items) result (made_index command.now
        (reads_of v))) }
    // For every tree, the result is that for some result of each read (`read`). The read of the
    // first operand has the number 0.
    ensures found { (read : Reads)
        × EachOperandReadFindsNoFileOrFileBytes read 0 command.now.operands
        × AgreesUnlessMemoryOrDisk (λ file. file.items) result (made_index command.now read) }
    // The tree is only read, and `Disk` has a fault of the tree as its cause.
    ensures tree { OnlyReads MakeFault.Disk (T.history tree.old) (T.history tree.new)
        (T.counts tree.old) (T.counts tree.new) result }
{
    // A law that the proof needs; it computes nothing.
    file_operands_are_files();
    let entries = read_entries(alloc, command.operands(), tree)?;
    index_file(alloc, description(command.values()), entries)
}

/// The description that a command gives by `-d`, or nothing.
fn description(values: &Values) -> &[u8]
    ensures { result.now ≡ first_description_or_empty values.now }
{
    match values.first(DESCRIPTION) {
        Some(value) => value.text.as_bytes(),
        None => &[],
    }
}

/// Reads the packages that operands name, one after another up to the first that is not sound. The
/// bytes of each file are dropped before the next is read, unless its entry alone exceeds a limit
/// of the writer.
fn read_entries<T: Tree>(
    alloc: Global,
    operands: &Operands,
    tree: &mut T,
) -> Result<Vec<Entry>, MakeFault>
    // Each operand is the name of a file.
    requires { IsTrue (are_files operands.now) }
    // If the tree is observable, the result is the entries of its files or the first refusal,
    // unless it is out of memory or an I/O error.
    ensures made { IfObservable (T.history tree.old) (λ v.
        AgreesUnlessMemoryOrDisk entries_view result (found_entries (reads_of v) 0 operands.now)) }
    // For every tree, the result is that for some result of each read (`read`).
    ensures found { (read : Reads) × EachOperandReadFindsNoFileOrFileBytes read 0 operands.now
        × AgreesUnlessMemoryOrDisk entries_view result (found_entries read 0 operands.now) }
    // The tree is only read: no file changes, no I/O error is hidden, and no call is a misuse.
    ensures tree { OnlyReads MakeFault.Disk (T.history tree.old) (T.history tree.new)
        (T.counts tree.old) (T.counts tree.new) result }
{
    let mut entries = Vec::new(alloc);
    for i in 0..operands.len() {
        let place = operands.get(i).place;
        let entry = read_entry(alloc, place, operands.file(i), tree)?;
        add_entry(&mut entries, entry)?;
    }
    Ok(entries)
}

/// Adds an entry at the end.
fn add_entry(entries: &mut Vec<Entry>, entry: Entry) -> Result<(), AllocError>
    ensures { IfOk result (λ _.
        map entry_view entries.new.items
        ≡ map entry_view entries.old.items ++ entry_view entry ∷ []) }
{
    entries.push(entry)?;
    Ok(())
}

/// Reads the package in the file of this name, which the operand at this place names, and makes all
/// tests of the package.
fn read_entry<T: Tree>(
    alloc: Global,
    place: u32,
    file: &Name,
    tree: &mut T,
) -> Result<Entry, MakeFault>
    // If the tree is observable, the result is the entry of its file or the refusal, unless it is
    // out of memory or an I/O error.
    ensures made { IfObservable (T.history tree.old) (λ v.
        AgreesUnlessMemoryOrDisk entry_view result (found_entry place (files_of v file.now))) }
    // For every tree, the result is that for some bytes of the file, or for its absence (`found`).
    ensures found { (found : Option (List ℕ)) × IfSome found AreFileBytes
        × AgreesUnlessMemoryOrDisk entry_view result (found_entry place found) }
    // The tree is only read: no file changes, no I/O error is hidden, and no call is a misuse.
    ensures tree { OnlyReads MakeFault.Disk (T.history tree.old) (T.history tree.new)
        (T.counts tree.old) (T.counts tree.new) result }
{
    let found = read_all(alloc, tree, file)?;
    entry_of(alloc, place, found)
}

/// The entry of the package in the bytes that were found under the name of the operand at this
/// place; an absent file is refused.
fn entry_of(alloc: Global, place: u32, found: Option<Vec<u8>>) -> Result<Entry, MakeFault>
    // The result is the entry of the bytes found, or the refusal, unless out of memory.
    ensures made { AgreesUnlessMemory entry_view result (found_entry place (bytes_in found)) }
    // The bytes that were found are bytes that a file may have.
    ensures bytes { IfSome (bytes_in found) AreFileBytes }
{
    match found {
        Some(file) => Entry::of(alloc, place, file),
        None => Err(MakeFault::FileMissing { place }),
    }
}

/// The bytes of the index with this description and these entries, which are given in any order.
///
/// # Errors
///
/// `TooLarge` if the payload exceeds a limit of the writer, or `Memory`.
fn index_file(alloc: Global, description: &[u8], entries: Vec<Entry>) -> Result<Vec<u8>, MakeFault>
    // The result is the index of the definition, or the refusal; out of memory may occur in any
    // case.
    ensures { AgreesUnlessMemory (λ file. file.items) result
        (index_of_entries description.now (map entry_view entries.items)) }
{
    // The entries are sorted in place; only their order changes.
    let mut entries = entries;
    sort_entries(&mut entries)?;
    let payload = index_payload(alloc, description, &entries)?;
    Ok(file_of(alloc, INDEX_WORD, &payload)?)
}

/// Sorts entries in the order of an index; equal ones keep their order.
fn sort_entries(entries: &mut Vec<Entry>) -> Result<(), AllocError>
    ensures { IfOk result (λ _.
        map entry_view entries.new.items
        ≡ sorted_by index_entry_cmp (map entry_view entries.old.items)) }
{
    // A law that the proof needs; it computes nothing.
    order_is_total();
    entries.sort_by(|one, other| one.compare(other))?;
    Ok(())
}

/// The payload of an index with this description and these entries, in their order.
fn index_payload(alloc: Global, description: &[u8], entries: &[Entry]) -> Result<Vec<u8>, MakeFault>
    // On Ok, this is the payload of the index with these entries.
    ensures made { IfOk result (λ payload.
        payload_or_counts_at_overflow (value_of_index description.now (map entry_view entries.now))
        ≡ Ok payload.items) }
    // The payload is not longer than a payload may be.
    ensures small { IfOk result (λ payload. length payload.items ≤ MOST_BYTES) }
    // An error is the limit of a payload that is exceeded, or out of memory.
    ensures err { IfErr result (λ fault. IsOverflowFault fault
        (payload_or_counts_at_overflow (value_of_index description.now
        (map entry_view entries.now)))) }
{
    let mut draft = Draft::new(alloc);
    write_index(alloc, &mut draft, description, entries)?;
    Ok(draft.finish()?)
}

/// Writes the values of an index: its description, and its entries. No pattern for the names of
/// package files is written.
fn write_index(
    alloc: Global,
    draft: &mut Draft,
    description: &[u8],
    entries: &[Entry],
) -> Result<(), AllocError>
    // On Ok, the draft has one value more: the object of the index.
    ensures { OnOk result (draft.new
        ≡ draft_with (value_of_index description.now (map entry_view entries.now)) draft.old) }
{
    draft.open_list()?;
    draft.blob(description)?;
    write_entries(alloc, draft, entries)?;
    draft.close_object()
}

/// Writes entries as an array, in their order.
fn write_entries(alloc: Global, draft: &mut Draft, entries: &[Entry]) -> Result<(), AllocError>
    // On Ok, the draft has one value more: the array of the entries, or Null if there are none.
    ensures { OnOk result (draft.new
        ≡ draft_with (array_or_null (plains_of_list (map entry_view entries.now))) draft.old) }
{
    draft.open_list()?;
    for entry in entries {
        entry.write(alloc, draft)?;
    }
    draft.close_array()
}

/// The entry of a package in an index is normal, and has the shape of a package's information. It
/// has a valid version if the package is sound.
pub fn an_entry_is_an_info()
    // The entry is an object of the fields of table 3.
    ensures shape { (file : List ℕ)
        → HasShape (shape_of (Kinds.Obj Tables.PkgInfo)) (index_entry_of_package_file file) }
    // The entry is normal if the package's file has bytes that a file may have.
    ensures normal { (file : List ℕ) → All (λ b. b < 256) file → length file < 2 ^ 64
        → IsNormal (index_entry_of_package_file file) }
    // The entry has a valid version if the package is sound.
    ensures version { (file : List ℕ) → container_fault_except_contents Tables.Package file ≡ None
        → is_version (version_of_index_entry (index_entry_of_package_file file)) ≡ true }
{
    // Laws that the proof needs; they compute nothing.
    sound_containers_hold_sound_values();
    values_are_normal();
    values_have_their_shape();
}

/// Sorting the entries of an index keeps them all, puts no entry before a smaller one, and keeps
/// the order of equal entries.
pub fn an_index_is_in_order()
    // The sorted list has the same entries.
    ensures same { (entries : List Plain)
        → IsPermutation entries (sorted_by index_entry_cmp entries) }
    // No entry is before a smaller one.
    ensures sorted { (entries : List Plain)
        → IsSorted index_entry_cmp (sorted_by index_entry_cmp entries) }
    // Equal entries keep their order, which is that of the operands.
    ensures stable { (entries : List Plain)
        → IsStable index_entry_cmp entries (sorted_by index_entry_cmp entries) }
{
    // A law that the proof needs; it computes nothing.
    order_is_total();
}

/// Which of two entries is first in an index: the one with the smaller name; of equal names, the
/// one with the smaller version; of equal versions, the one whose version is the smaller text; of
/// equal texts, the one with the smaller id.
pub fn entries_stand_by_name_version_and_id()
    // The entry with the smaller name is first.
    ensures name { (a b : Plain) → bytes_cmp (name_of_index_entry a) (name_of_index_entry b) ≡ Less
        → index_entry_cmp a b ≡ Less }
    // Of equal names, the one with the smaller version is first.
    ensures version { (a b : Plain) → bytes_cmp (name_of_index_entry a) (name_of_index_entry b)
        ≡ Equal
        → version_cmp (version_of_index_entry a) (version_of_index_entry b) ≡ Less
        → index_entry_cmp a b ≡ Less }
    // Of equal versions, the one whose version is the smaller text is first.
    ensures text { (a b : Plain) → bytes_cmp (name_of_index_entry a) (name_of_index_entry b) ≡ Equal
        → version_cmp (version_of_index_entry a) (version_of_index_entry b) ≡ Equal
        → bytes_cmp (version_of_index_entry a) (version_of_index_entry b) ≡ Less
        → index_entry_cmp a b
        ≡ Less }
    // Of equal texts, the one with the smaller id is first.
    ensures id { (a b : Plain) → bytes_cmp (name_of_index_entry a) (name_of_index_entry b) ≡ Equal
        → version_cmp (version_of_index_entry a) (version_of_index_entry b) ≡ Equal
        → bytes_cmp (version_of_index_entry a) (version_of_index_entry b) ≡ Equal
        → bytes_cmp (id_of_index_entry a) (id_of_index_entry b) ≡ Less → index_entry_cmp a b
        ≡ Less }
{}

/// The name, the version and the id by which an entry is ordered are its fields `name`, `version`
/// and `hashes` in table 3.
pub fn an_entry_is_ordered_by_its_named_fields()
    // The name is the field `name`.
    ensures name { (fields : Plains) (v : Plain)
        → value_by_name (codes "name") (table PkgInfo) fields ≡ Some v
        → name_of_index_entry (trimmed_object_or_null fields) ≡ text_in v }
    // The version is the field `version`.
    ensures version { (fields : Plains) (v : Plain)
        → value_by_name (codes "version") (table PkgInfo) fields ≡ Some v
        → version_of_index_entry (trimmed_object_or_null fields) ≡ text_in v }
    // The id is the field `hashes`.
    ensures id { (fields : Plains) (v : Plain)
        → value_by_name (codes "hashes") (table PkgInfo) fields ≡ Some v
        → id_of_index_entry (trimmed_object_or_null fields) ≡ text_in v }
{}
