//! The files of a package that have contents: the walk over them, and the blocks with their bytes.
//! The rules are in `docs/formats.md`, "The other blocks", the second paragraph.

ghost use Rattle.std.specs.Prelude.{◌≡◌, ◌&&◌, ◌+◌, ◌-◌, ◌<◌, ◌≤◌, ◌^◌, drop, length, ◌==◌, [], Some, IfOk, option_map};
ghost use Rattle.std.specs.Result.{result_err};
ghost use Rattle.adb_view.specs.Values.{entries_in, count_of};
ghost use Rattle.adb_schema.specs.Views.{file_value, package_value};
ghost use Rattle.adb_schema.specs.adb_fields.ListValue.{list_value};
ghost use Rattle.adb_schema.specs.adb_fields.Repeated.{list_of};
ghost use Rattle.adb_schema.specs.Texts.{is_file_with_contents};
ghost use Rattle.pkg_core.specs.Contents.{POSITIONS_LEN, expected_files_of_package, expected_files_of_folder, expected_files_of_folders, contents_from_block_payload, contents_fault_for_expected_file, missing_contents_fault};
ghost use Rattle.pkg_core.specs.Opened.{expected_file_at, expected_of};

use crate::checks::fault_if_digest_is_not_of_bytes;
use adb_block::{BlockKind, Blocks};
use adb_schema::{DirInfo, FileInfo, List, PackageView, folder_and_file_positions_from_payload};
use base_core::Cause;

/// A walk over the files of a package that have contents: its position, after this many folders,
/// and after this many files of the next one. Contracts see the files that are left, by
/// `files_left_in_walk` of `specs/`.
#[derive(Clone, Copy)]
pub struct Walk<'a> {
    /// All folders of the package.
    folders: List<'a, DirInfo<'a>>,
    /// How many folders are passed.
    folder: usize,
    /// How many files of the next folder are passed.
    file: usize,
}

/// A file whose contents are expected: the position of its folder, the position of the file in this
/// folder, the size in bytes, and the digest. Positions count from 1.
#[derive(Clone, Copy)]
pub struct Wanted<'a> {
    /// The position of the file's folder in the package, counted from 1.
    pub folder: u32,
    /// The position of the file in this folder, counted from 1.
    pub file: u32,
    /// The size of the file in bytes, as its entry lists it.
    pub size: u64,
    /// The digest that the bytes of the file must have; the length of the digest selects the
    /// function.
    pub hash: &'a [u8],
}

impl<'a> Walk<'a> {
    ghost use Rattle.adb_schema.specs.adb_fields.Repeated.{files_in};
    ghost use Rattle.pkg_core.specs.Opened.{files_left_in_walk, TakesFirstExpected};

    /// A walk before the first of these folders.
    pub fn new(folders: List<'a, DirInfo<'a>>) -> Walk<'a>
        // All files with contents are left.
        ensures { files_left_in_walk result
            ≡ expected_files_of_folders 1 (list_of (entries_in (list_value folders.entry))) }
    {
        Walk {
            folders,
            folder: 0,
            file: 0,
        }
    }

    /// Goes on to the next file that has contents, or None after the last.
    pub fn next(&mut self) -> Option<Wanted<'a>>
        // The result is the first file that was left, and the others stay left; None if none was
        // left.
        ensures { TakesFirstExpected (files_left_in_walk self.old) result
            (files_left_in_walk self.new) }
    {
        while self.folder < self.folders.len() {
            // The files of the next folder; `get` counts from 1.
            let files = self.folders.get(self.folder + 1).files();
            match self.next_in(files) {
                Some(wanted) => return Some(wanted),
                None => {
                    self.folder += 1;
                    self.file = 0;
                }
            }
        }
        None
    }

    /// Goes on to the next file of the folder that has contents, or None after the folder's last.
    fn next_in(&mut self, files: List<'a, FileInfo<'a>>) -> Option<Wanted<'a>>
        // Positions have 32 bits.
        requires { self.old.folder + 1 < 2 ^ 32 }
        // The folders are unchanged.
        ensures folders { self.new.folders ≡ self.old.folders }
        // The number of passed folders is unchanged.
        ensures folder { self.new.folder ≡ self.old.folder }
        // The file that is returned is the first that is left in the folder, and the later ones
        // stay left.
        ensures taken { TakesFirstExpected (expected_files_of_folder (self.old.folder + 1)
            (self.old.file + 1)
            (drop self.old.file (list_of (entries_in (list_value files.entry))))) result
            (expected_files_of_folder (self.old.folder + 1) (self.new.file + 1)
            (drop self.new.file (list_of (entries_in (list_value files.entry))))) }
    {
        while self.file < files.len() {
            self.file += 1;
            let file = files.get(self.file);
            if has_contents(&file) {
                return Some(Wanted {
                    folder: self.folder as u32 + 1,
                    file: self.file as u32,
                    size: file.size(),
                    hash: file.hashes(),
                });
            }
        }
        None
    }
}

/// The file of a package with these positions, if it has contents, in constant time. None if and
/// only if there is no such file, or it has no contents.
pub fn wanted_file<'a>(view: &PackageView<'a>, folder: u32, file: u32) -> Option<Wanted<'a>>
    // The result is the expected file of the package with these positions.
    ensures { option_map expected_of result ≡ expected_file_at folder file
        (expected_files_of_package (package_value view.now)) }
{
    wanted_in_folder(view.paths(), folder, file)
}

/// The file at this position of the folder at that position, if it has contents; None if there is
/// no such file. Positions count from 1.
fn wanted_in_folder<'a>(
    folders: List<'a, DirInfo<'a>>,
    folder: u32,
    file: u32,
) -> Option<Wanted<'a>>
    ensures { option_map expected_of result ≡ expected_file_at folder file
        (expected_files_of_folders 1 (list_of (entries_in (list_value folders.entry)))) }
{
    let i = folder as usize;
    if i == 0 {
        return None;
    }
    // The package has fewer folders.
    if i > folders.len() {
        return None;
    }
    wanted_in(folders.get(i).files(), folder, file)
}

/// The file at this position of a folder, if it has contents; None if there is no such file.
/// Positions count from 1.
fn wanted_in<'a>(files: List<'a, FileInfo<'a>>, folder: u32, file: u32) -> Option<Wanted<'a>>
    ensures { option_map expected_of result ≡ expected_file_at folder file
        (expected_files_of_folder folder 1 (list_of (entries_in (list_value files.entry)))) }
{
    let i = file as usize;
    if i == 0 {
        return None;
    }
    // The folder has fewer files.
    if i > files.len() {
        return None;
    }
    let found = files.get(i);
    if !has_contents(&found) {
        return None;
    }
    Some(Wanted {
        folder,
        file,
        size: found.size(),
        hash: found.hashes(),
    })
}

/// Whether a file has contents: it has no target, and a size above 0.
fn has_contents(file: &FileInfo<'_>) -> bool
    ensures { result ≡ is_file_with_contents (file_value file.now) }
{
    file.target().is_empty() && file.size() > 0
}

/// How many bytes the two positions have at the front of a block of contents: the position of the
/// folder and that of the file, four bytes each.
pub const POSITIONS_LEN: usize = 8;

/// The contents of a file, with the position of its folder (`path`) and the position of the file in
/// this folder. The bytes are borrowed.
#[derive(Clone, Copy)]
pub struct FileContents<'a> {
    /// The position of the file's folder in the package, counted from 1.
    pub path: u32,
    /// The position of the file in this folder, counted from 1.
    pub file: u32,
    /// The bytes of the file.
    pub bytes: &'a [u8],
}

/// The blocks that are left, and the walk over the files that are expected in them.
#[derive(Drop)]
pub(crate) struct Rest<'a> {
    /// The blocks that are still to be read.
    pub(crate) blocks: Blocks<'a>,
    /// The walk over the files whose contents these blocks must have.
    pub(crate) walk: Walk<'a>,
}

impl<'a> Rest<'a> {
    ghost use Rattle.pkg_core.specs.Opened.{files_left, ReadsNext};

    /// Reads the blocks up to the next one with contents, and tests these contents; None after the
    /// last block.
    #[tactic(auto, unfolding(crate::specs::Contents::files_read_from_blocks))]
    pub(crate) fn next(&mut self) -> Result<Option<FileContents<'a>>, Cause>
        // The result is the first file that was left, or the first failed test of the blocks.
        ensures { ReadsNext (files_left self.old) result (files_left self.new) }
    {
        loop {
            let Some(block) = self.blocks.next()? else {
                self.walk.end()?;
                return Ok(None);
            };
            if let BlockKind::Contents = block.kind {
                let contents = self.walk.give(block.payload, block.at)?;
                return Ok(Some(contents));
            }
        }
    }
}

impl<'a> Walk<'a> {
    ghost use Rattle.pkg_core.specs.Opened.{files_left_in_walk, ReturnsNextContents};

    /// Ends the walk at the end of the blocks; then no file may be left.
    pub fn end(&mut self) -> Result<(), Cause>
        // The error says that the first file left has no contents; it is returned exactly if a file
        // is left.
        ensures exact { result_err result ≡ missing_contents_fault (files_left_in_walk self.old) }
        // On Ok, no file is left.
        ensures end { IfOk result (λ _. files_left_in_walk self.new ≡ []) }
    {
        match self.next() {
            Some(wanted) => Err(Cause::DataOrder {
                expected: (wanted.folder, wanted.file),
                found: (0, 0),
            }),
            None => Ok(()),
        }
    }

    /// Tests the block of contents with this payload, at the offset `at`, against the next file.
    /// Returns the contents of that file.
    pub(crate) fn give(&mut self, payload: &'a [u8], at: u64) -> Result<FileContents<'a>, Cause>
        // The result is the contents of the first file left, or the first failed test of the block.
        ensures { ReturnsNextContents payload.entry.now at (files_left_in_walk self.old) result
            (files_left_in_walk self.new) }
    {
        if payload.len() < POSITIONS_LEN {
            return Err(Cause::Truncated { at });
        }
        let Some(wanted) = self.next() else {
            return Err(Cause::DataOrder {
                expected: (0, 0),
                found: folder_and_file_positions_from_payload(payload),
            });
        };
        match contents_fault_for_expected_file(payload, wanted) {
            Some(cause) => Err(cause),
            None => Ok(FileContents {
                path: wanted.folder,
                file: wanted.file,
                bytes: &payload[POSITIONS_LEN..],
            }),
        }
    }
}

/// Why a block with this payload does not have the contents of the wanted file: first the positions
/// are compared, then the size, then the digest. None if all agree.
fn contents_fault_for_expected_file(payload: &[u8], wanted: Wanted<'_>) -> Option<Cause>
    // The payload has at least the two positions of contents.
    requires { POSITIONS_LEN ≤ length payload.now }
    ensures { result ≡ contents_fault_for_expected_file payload.now (expected_of wanted.entry) }
{
    let expected = (wanted.folder, wanted.file);
    let found = folder_and_file_positions_from_payload(payload);
    if found != expected {
        return Some(Cause::DataOrder { expected, found });
    }
    let bytes = &payload[POSITIONS_LEN..];
    let size = bytes.len() as u64;
    if size != wanted.size {
        return Some(Cause::DataSize {
            wanted: wanted.size,
            found: size,
        });
    }
    fault_if_digest_is_not_of_bytes(wanted.hash, bytes)
}
