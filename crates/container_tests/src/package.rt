//! The containers of the packages and of the database that rows describe. `tests/lines.md`
//! describes how a row gives a package; the fields are in `docs/formats.md`, "Schemas". Fields
//! count from 1 there, and from 0 here.

use crate::split::{folder_and_name, split_at_first};
use crate::values::Values;
use adb_schema::{IDB_WORD, PACKAGE_WORD};
use adb_view::Val;
use base_core::Words;
use row_lines::{number_of, word_at};
use sha1::Sha1;
use sha2::{Digest, Sha256};
use std::alloc::{AllocError, Global};

/// How many fields of a package's information are written (table 3): those up to `replaces`, which
/// has the index 16 and is the last one.
const INFO_FIELDS: usize = 17;

/// How many fields of a file's entry are written (table 4): those up to the target.
const FILE_FIELDS: usize = 6;

/// The index of the field `size` in a file's entry.
const SIZE: usize = 2;

/// The index of the field `hashes`, the digest, in a file's entry.
const HASHES: usize = 4;

/// The index of the field `target` in a file's entry.
const TARGET: usize = 5;

/// The container of the package that the row describes, without the contents of its files.
pub(crate) fn package_file(alloc: Global, row: &Words) -> Result<Vec<u8>, AllocError> {
    let mut values = Values::new(alloc);
    let root = write_package(&mut values, row);
    values.finish(root, PACKAGE_WORD)
}

/// The container of a database with the packages that these rows describe.
pub(crate) fn database_file(alloc: Global, rows: &[Words]) -> Result<Vec<u8>, AllocError> {
    let mut values = Values::new(alloc);
    let root = write_packages(&mut values, rows);
    values.finish(root, IDB_WORD)
}

/// Writes a database with the packages that these rows describe.
fn write_packages(values: &mut Values, rows: &[Words]) -> Val {
    let mut packages = Vec::new(values.alloc);
    for row in rows {
        let package = write_package(values, row);
        values.add(&mut packages, package);
    }
    let packages = values.array(&packages);
    values.object(&[packages])
}

/// Writes the package that a row `WORD NAME VERSION PRIORITY FILES REPLACES..` describes. FILES has
/// commas between the files. Each of REPLACES is `NAME:VERSION:MATCH`, where MATCH are the match
/// bits of the version operator.
fn write_package(values: &mut Values, row: &Words) -> Val {
    // In the package's information, field 0 is the name, field 1 the version, and field 16
    // `replaces`.
    let mut info = [Val::of(0); INFO_FIELDS];
    info[0] = values.blob(word_at(row, 1));
    info[1] = values.blob(word_at(row, 2));
    info[INFO_FIELDS - 1] = write_replaces(values, row);
    let info = values.object(&info);
    let priority = values.number(number_in(word_at(row, 3)));
    let folders = write_folders(values, word_at(row, 4));
    // The word 0 is null: no scripts, and no triggers.
    values.object(&[info, folders, Val::of(0), Val::of(0), priority])
}

/// The number in a word of a row, or 0 if the word is no number of at most 64 bits.
pub(crate) fn number_in(word: &[u8]) -> u64 {
    u64::try_from(number_of(word).unwrap_or(0)).unwrap_or(0)
}

/// Writes the field `replaces` of the package: its entries are the words of the row from the sixth
/// on, in the form `NAME:VERSION:MATCH`.
fn write_replaces(values: &mut Values, row: &Words) -> Val {
    let mut replaces = Vec::new(values.alloc);
    for i in 5..row.len() {
        let entry = write_replaced(values, row.word(i));
        values.add(&mut replaces, entry);
    }
    values.array(&replaces)
}

/// Writes an entry `NAME:VERSION:MATCH` of the field `replaces`.
fn write_replaced(values: &mut Values, entry: &[u8]) -> Val {
    let (name, rest) = split_at_first(entry, b':');
    let (version, matching) = split_at_first(rest, b':');
    let name = values.blob(name);
    let version = values.blob(version);
    let matching = values.number(number_in(matching));
    values.object(&[name, version, matching])
}

/// Writes the folders of a package with their files, from the list FILES of a row. Adjacent files
/// of the list that have the same folder are in one folder of the package.
fn write_folders(values: &mut Values, files: &[u8]) -> Val {
    if files.is_empty() {
        return Val::of(0);
    }
    let mut folders = Folders {
        written: Vec::new(values.alloc),
        name: None,
        files: Vec::new(values.alloc),
    };
    for file in files.split(|byte| *byte == b',') {
        folders.add(values, file);
    }
    folders.close(values);
    values.array(&folders.written)
}

/// The folders of a package, while they are written one after another.
#[derive(Drop)]
struct Folders<'a> {
    /// The folders that are written so far.
    written: Vec<Val>,
    /// The name of the next folder, or None before the first file.
    name: Option<&'a [u8]>,
    /// The files of the next folder, which are written already.
    files: Vec<Val>,
}

impl<'a> Folders<'a> {
    /// Adds the next file of the list. A path that ends in a slash is a folder without files.
    fn add(&mut self, values: &mut Values, file: &'a [u8]) {
        let (path, description) = path_and_description(file);
        let (folder, name) = folder_and_name(path);
        let last = self.name;
        if !matches!(last, Some(last) if last == folder) {
            self.close(values);
            self.name = Some(folder);
        }
        if !name.is_empty() {
            let file = write_file(values, name, description);
            values.add(&mut self.files, file);
        }
    }

    /// Writes the next folder with its files, if there is one.
    fn close(&mut self, values: &mut Values) {
        if let Some(name) = self.name {
            let name = values.blob(name);
            let files = values.array(&self.files);
            // The word 0 is null: no access list.
            let folder = values.object(&[name, Val::of(0), files]);
            values.add(&mut self.written, folder);
            self.files.clear();
        }
    }
}

/// Writes the entry of a file. The description follows the path in the row: `=BYTES` stands for
/// these contents with a SHA-256, `#BYTES` for these with a SHA-1, `:SIZE` for a size without a
/// digest, and `>TEXT` for a link. Without a description the file is empty.
fn write_file(values: &mut Values, name: &[u8], description: &[u8]) -> Val {
    let mut fields = [Val::of(0); FILE_FIELDS];
    fields[0] = values.blob(name);
    match description {
        [b'=', bytes @ ..] => {
            fields[SIZE] = values.number(bytes.len() as u64);
            fields[HASHES] = values.blob(&Sha256::digest(bytes));
        }
        [b'#', bytes @ ..] => {
            fields[SIZE] = values.number(bytes.len() as u64);
            fields[HASHES] = values.blob(&Sha1::digest(bytes));
        }
        [b':', size @ ..] => fields[SIZE] = values.number(number_in(size)),
        [b'>', text @ ..] => fields[TARGET] = values.link(text),
        _ => {}
    }
    values.object(&fields)
}

/// Splits an entry of the list FILES into the path, and the description, which begins with one of
/// the bytes that `write_file` knows, or is empty.
fn path_and_description(file: &[u8]) -> (&[u8], &[u8]) {
    for i in 0..file.len() {
        if matches!(file[i], b'=' | b'#' | b':' | b'>') {
            return (&file[..i], &file[i..]);
        }
    }
    (file, b"")
}
