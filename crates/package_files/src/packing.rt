//! Reads the files of a package, each once, and packs them: what they are, and their contents in
//! blocks (apk-package(5)).
//! The rules are in `docs/formats.md`, "The other blocks" (which files have a block, positions,
//! order) and "Container" (header and padding of a block); that a file is not held twice, in
//! `docs/DECISIONS.md`, "Making".
ghost use Rattle.base_core.specs.Read.{OnlyReads};
ghost use Rattle.adb_block.specs.BlockWithoutOffset.{padding_of};
ghost use Rattle.base_core.specs.Calls.{IfObservable};
ghost use Rattle.base_core.specs.Tree.{files_of};
ghost use Rattle.package_files.specs.Blocks.{HasBlockFront, contents_front};
ghost use Rattle.package_files.specs.BorrowedNames.{listings_of};
ghost use Rattle.package_files.specs.Folders.{folder_listings_by_tree_names};
ghost use Rattle.package_files.specs.Package.{has_contents};
ghost use Rattle.package_files.specs.Packed.{IsPackedFile, ArePackedFiles, IsPackedFolder, IsPacking};
ghost use Rattle.package_files.specs.Runs.{AgreesOrIsFault, HoldsOfSomeReadsOfTree};
ghost use Rattle.package_files.specs.Sources.{found_bytes_or_missing, source_file_at_place_by_read, source_files_at_place_from_read, source_folder_at_place_by_read, source_folders_at_place_from_read};
ghost use Rattle.std.specs.Option.{option_map};
ghost use Rattle.std.specs.Prelude.{◌≡◌, ◌++◌, ◌≤◌, ◌-◌, length, take, drop, replicate, OnOk, IfOk, IfSome, [], ◌∷◌, ℕ, map, true, false};

use crate::file::{File, FileKind, Folder, Packing};
use crate::folders::{FolderNames, all_folders_above, last_part_of, names_in_folders};
use adb_block::{BlockKind, block_head};
use base_core::{Name, Names, Tree, TreeFault, append_file_to, read_all};
use make_info::MakeFault;
use std::alloc::{AllocError, Global};

/// The most bytes of one allocation, so the most bytes of a vector.
const MOST_IN_MEMORY: u64 = isize::MAX as u64;

/// The most bytes of a block besides those of its file: its header, the two positions, and the
/// padding.
const MOST_AROUND_FILE: usize = 16 + 8 + 7;

/// Reserves room for `more` further bytes. If the buffer has to grow, it also gets room for an
/// eighth of its length: so its room is not doubled, and it still grows seldom.
fn reserve_room(bytes: &mut Vec<u8>, more: usize) -> Result<(), AllocError>
    // The bytes are unchanged; only the room is larger.
    ensures { bytes.new.items ≡ bytes.old.items }
{
    if bytes.capacity() - bytes.len() < more {
        bytes.reserve_exact(more.saturating_add(bytes.len() / 8))?;
    }
    Ok(())
}

/// Appends the first bytes of the block with the contents of a file of `size` bytes. These are the
/// header of the block, the position of the file's folder, and the position of the file in it.
/// Positions count from 1. Room for the whole block is reserved first. A position of more than 32
/// bits is cut: a package with so many files exceeds the limits of a payload.
fn begin_block(blocks: &mut Vec<u8>, position: (u64, u64), size: u64) -> Result<(), AllocError>
    // On Ok, the header and the two positions are appended to the blocks.
    ensures { OnOk result (blocks.new.items
        ≡ blocks.old.items ++ contents_front position.0 position.1 size) }
{
    if size > MOST_IN_MEMORY {
        return Err(AllocError);
    }
    reserve_room(blocks, size as usize + MOST_AROUND_FILE)?;
    // The two positions have four bytes each.
    let head = block_head(BlockKind::Contents, 8 + size);
    blocks.extend_from_slice(head.bytes())?;
    blocks.extend_from_slice(&position.0.to_le_bytes()[..4])?;
    blocks.extend_from_slice(&position.1.to_le_bytes()[..4])
}

/// Ends the block that begins at the offset `start`, whose file has this kind, by padding after the
/// file's bytes. If the file has no contents, it has no block, and the bytes from `start` on are
/// removed.
fn end_block(blocks: &mut Vec<u8>, start: usize, kind: &FileKind) -> Result<(), AllocError>
    // The block begins within the bytes.
    requires { start ≤ length blocks.old.items }
    // If the file has no contents, the bytes of its block are removed.
    ensures none { OnOk result (has_contents kind.now ≡ false
        → blocks.new.items ≡ take start blocks.old.items) }
    // If the file has contents, zeros are appended as the padding of its block.
    ensures padded { OnOk result (has_contents kind.now ≡ true
        → blocks.new.items ≡ blocks.old.items
        ++ replicate (padding_of (length blocks.old.items - start)) 0) }
{
    if !kind.has_contents() {
        // A link and an empty file have no block.
        blocks.truncate(start);
        return Ok(());
    }
    append_padding(blocks, (blocks.len() - start) as u64)
}

/// Appends zeros after a block of this many bytes, up to the next multiple of eight.
fn append_padding(blocks: &mut Vec<u8>, size: u64) -> Result<(), AllocError>
    ensures { OnOk result (blocks.new.items ≡ blocks.old.items ++ replicate (padding_of size) 0) }
{
    let padding = (8 - size % 8) % 8;
    blocks.extend_from_slice(&[0; 8][..padding as usize])
}

/// Inserts a prefix before the bytes of a vector, without a second copy of them.
pub fn put_in_front(bytes: &mut Vec<u8>, front: &[u8]) -> Result<(), AllocError>
    ensures { OnOk result (bytes.new.items ≡ front.now ++ bytes.old.items) }
{
    reserve_room(bytes, front.len())?;
    bytes.extend_from_slice(front)?;
    // The prefix was appended; the rotation moves it to the front, in the same memory.
    bytes.rotate_right(front.len());
    Ok(())
}

/// Packs the files of these names, folder by folder. They are listed below the folder `dir` of the
/// tree, which the argument at this place gives. A listed file that is absent is reported at this
/// place.
pub fn pack_names<'a, T: Tree>(
    alloc: Global,
    tree: &mut T,
    place: u32,
    dir: &[u8],
    names: &'a Names,
) -> Result<Packing<'a>, MakeFault>
    // The tree is only read, and `Disk` has a fault of the tree as its cause.
    ensures tree { OnlyReads MakeFault.Disk (T.history tree.old) (T.history tree.new)
        (T.counts tree.old) (T.counts tree.new) result }
    // For each number `n` of the first read, some results of reads give this result. If the tree is
    // observable, the reads find its files.
    ensures read { (n : ℕ) → HoldsOfSomeReadsOfTree (T.history tree.old) (λ read.
        AgreesOrIsFault IsPacking result (source_folders_at_place_from_read place read n
        (folder_listings_by_tree_names dir.now names.now))) }
{
    let folders = all_folders_above(alloc, dir, names)?;
    let files = names_in_folders(alloc, dir, names, &folders)?;
    let packing = pack_folders(alloc, tree, place, &folders, &files)?;
    Ok(packing)
}

/// Packs the files of these folders. `files` has, for each folder, the names in the tree of its
/// files. The argument at this place gives the folder of the tree that has them all.
fn pack_folders<'a, T: Tree>(
    alloc: Global,
    tree: &mut T,
    place: u32,
    folders: &FolderNames<'a>,
    files: &[Vec<&'a Name>],
) -> Result<Packing<'a>, MakeFault>
    // There is a list of names for each folder.
    requires { length files.now ≡ length folders.now }
    // The tree is only read: no file changes, no I/O error is hidden, and no call is a misuse.
    ensures tree { OnlyReads MakeFault.Disk (T.history tree.old) (T.history tree.new)
        (T.counts tree.old) (T.counts tree.new) result }
    // For each number `n` of the first read, some results of reads give this result. If the tree is
    // observable, the reads find its files.
    ensures read { (n : ℕ) → HoldsOfSomeReadsOfTree (T.history tree.old) (λ read.
        AgreesOrIsFault IsPacking result (source_folders_at_place_from_read place read n
        (listings_of folders.now files.now))) }
{
    let mut packed = Vec::new(alloc);
    let mut blocks = Vec::new(alloc);
    for i in 0..folders.len() {
        let name = folders.get(i);
        let folder = pack_folder(
            alloc,
            tree,
            place,
            i as u64 + 1,
            name,
            &files[i],
            &mut blocks,
        )?;
        push_folder(&mut packed, folder)?;
    }
    Ok(Packing {
        folders: packed,
        blocks,
    })
}

/// Adds a folder at the end.
fn push_folder<'a>(folders: &mut Vec<Folder<'a>>, folder: Folder<'a>) -> Result<(), AllocError>
    ensures { OnOk result (folders.new.items ≡ folders.old.items ++ folder.entry ∷ []) }
{
    folders.push(folder)?;
    Ok(())
}

/// Packs the folder at this position, counted from 1, whose name in the package is `name`, with the
/// files that have these names in the tree.
fn pack_folder<'a, T: Tree>(
    alloc: Global,
    tree: &mut T,
    place: u32,
    position: u64,
    name: &'a [u8],
    names: &[&'a Name],
    blocks: &mut Vec<u8>,
) -> Result<Folder<'a>, MakeFault>
    // The tree is only read: no file changes, no I/O error is hidden, and no call is a misuse.
    ensures tree { OnlyReads MakeFault.Disk (T.history tree.old) (T.history tree.new)
        (T.counts tree.old) (T.counts tree.new) result }
    // For each number `n` of the first read, some results of reads give this result. If the tree is
    // observable, the reads find its files.
    ensures read { (n : ℕ) → HoldsOfSomeReadsOfTree (T.history tree.old) (λ read.
        AgreesOrIsFault (IsPackedFolder position blocks.old.items blocks.new.items) result
        (source_folder_at_place_by_read place read n (record {
          name = name.now;
          files = map (λ name.
              name.now) names.now;
        }))) }
{
    let files = pack_files(alloc, tree, place, position, names, blocks)?;
    Ok(Folder { name, files })
}

/// Packs the files that have these names in the tree, and are in the folder of the package at the
/// position `folder`, counted from 1. Their blocks of contents are appended to `blocks`.
fn pack_files<'a, T: Tree>(
    alloc: Global,
    tree: &mut T,
    place: u32,
    folder: u64,
    names: &[&'a Name],
    blocks: &mut Vec<u8>,
) -> Result<Vec<File<'a>>, MakeFault>
    // The tree is only read: no file changes, no I/O error is hidden, and no call is a misuse.
    ensures tree { OnlyReads MakeFault.Disk (T.history tree.old) (T.history tree.new)
        (T.counts tree.old) (T.counts tree.new) result }
    // For each number `n` of the first read, some results of reads give this result. If the tree is
    // observable, the reads find its files.
    ensures read { (n : ℕ) → HoldsOfSomeReadsOfTree (T.history tree.old) (λ read.
        AgreesOrIsFault (ArePackedFiles folder blocks.old.items blocks.new.items) result
        (source_files_at_place_from_read place read n (map (λ name. name.now) names.now))) }
{
    let mut files = Vec::new(alloc);
    for i in 0..names.len() {
        let file = pack_file(alloc, tree, place, (folder, i as u64 + 1), names[i], blocks)?;
        push_file(&mut files, file)?;
    }
    Ok(files)
}

/// Adds a file at the end.
fn push_file<'a>(files: &mut Vec<File<'a>>, file: File<'a>) -> Result<(), AllocError>
    ensures { OnOk result (files.new.items ≡ files.old.items ++ file.entry ∷ []) }
{
    files.push(file)?;
    Ok(())
}

/// Packs the file that has this name in the tree. `position` is the position of its folder in the
/// package, and its own position in the folder, both counted from 1.
fn pack_file<'a, T: Tree>(
    alloc: Global,
    tree: &mut T,
    place: u32,
    position: (u64, u64),
    name: &'a Name,
    blocks: &mut Vec<u8>,
) -> Result<File<'a>, MakeFault>
    // The tree is only read: no file changes, no I/O error is hidden, and no call is a misuse.
    ensures tree { OnlyReads MakeFault.Disk (T.history tree.old) (T.history tree.new)
        (T.counts tree.old) (T.counts tree.new) result }
    // For each number `n` of the first read, some results of reads give this result. If the tree is
    // observable, the reads find its files.
    ensures read { (n : ℕ) → HoldsOfSomeReadsOfTree (T.history tree.old) (λ read.
        AgreesOrIsFault
        (IsPackedFile position.0 position.1 blocks.old.items blocks.new.items) result
        (source_file_at_place_by_read place read n name.now)) }
{
    // The offsets at which the block of the file and the file's bytes begin.
    let start = blocks.len();
    let at = read_listed(tree, place, position, name, blocks)?;
    let kind = FileKind::of(alloc, &blocks[at..])?;
    end_block(blocks, start, &kind)?;
    let name = last_part_of(name.as_bytes());
    Ok(File { name, kind })
}

/// Reads the file under a name as `read_in_block` does, and returns the offset at which its bytes
/// begin. An absent file is reported at this place, that of the argument whose folder was listed.
fn read_listed<T: Tree>(
    tree: &mut T,
    place: u32,
    position: (u64, u64),
    name: &Name,
    blocks: &mut Vec<u8>,
) -> Result<usize, MakeFault>
    // The tree is only read, and `Disk` has a counted fault of the tree as its cause.
    ensures tree { OnlyReads MakeFault.Disk (T.history tree.old) (T.history tree.new)
        (T.counts tree.old) (T.counts tree.new) result }
    // The block was appended with its header and the positions, and the file's bytes begin after
    // them, at the offset `at`.
    ensures begun { IfOk result (λ at. HasBlockFront position.0 position.1 blocks.old.items
        blocks.new.items at) }
    // For each number `n` of the first read, some results of reads give this result. If the tree is
    // observable, the reads find its files.
    ensures read { (n : ℕ) → HoldsOfSomeReadsOfTree (T.history tree.old) (λ read.
        AgreesOrIsFault (λ at bytes. bytes ≡ drop at blocks.new.items) result
        (found_bytes_or_missing place (read n name.now))) }
{
    match read_in_block(tree, position, name, blocks)? {
        Some(at) => Ok(at),
        None => Err(MakeFault::FileMissing { place }),
    }
}

/// Reads the file under a name into its block: appends the header and the positions, and then the
/// bytes of the file. Returns the offset at which the bytes begin, or None exactly if the file is
/// absent.
fn read_in_block<T: Tree>(
    tree: &mut T,
    position: (u64, u64),
    name: &Name,
    blocks: &mut Vec<u8>,
) -> Result<Option<usize>, TreeFault>
    // The tree is only read: no file changes, no I/O error is hidden, and no call is a misuse.
    ensures tree { OnlyReads TreeFault.Disk (T.history tree.old) (T.history tree.new)
        (T.counts tree.old) (T.counts tree.new) result }
    // If the file is present, its block was appended with its header and the positions, and the
    // file's bytes begin after them, at the returned offset.
    ensures begun { IfOk result (λ found. IfSome found (HasBlockFront position.0 position.1
        blocks.old.items blocks.new.items)) }
    // If the tree is observable, the bytes from the returned offset on are those of its file. None
    // is returned exactly if the tree has no file under the name.
    ensures answer { IfOk result (λ found. IfObservable (T.history tree.old) (λ v.
        option_map (λ at. drop at blocks.new.items) found ≡ files_of v name.now)) }
{
    let Some(size) = tree.size(name)? else {
        return Ok(None);
    };
    begin_block(blocks, position, size)?;
    let at = blocks.len();
    append_file_to(tree, name, size, blocks)?;
    Ok(Some(at))
}

/// Reads the whole file under a name. An absent file is reported at this place, that of the
/// argument that gives the file.
pub fn read_file<T: Tree>(
    alloc: Global,
    tree: &mut T,
    place: u32,
    name: &Name,
) -> Result<Vec<u8>, MakeFault>
    // The tree is only read: no file changes, no I/O error is hidden, and no call is a misuse.
    ensures tree { OnlyReads MakeFault.Disk (T.history tree.old) (T.history tree.new)
        (T.counts tree.old) (T.counts tree.new) result }
    // For each number `n` of the first read, some results of reads give this result. If the tree is
    // observable, the reads find its files.
    ensures read { (n : ℕ) → HoldsOfSomeReadsOfTree (T.history tree.old) (λ read.
        AgreesOrIsFault (λ bytes found. found ≡ bytes.items) result
        (found_bytes_or_missing place (read n name.now))) }
{
    match read_all(alloc, tree, name)? {
        Some(bytes) => Ok(bytes),
        None => Err(MakeFault::FileMissing { place }),
    }
}
