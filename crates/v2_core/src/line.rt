//! A line of a text database: a letter, a colon and a value.
//! The rules are in `docs/formats.md`, "Text database of version 2", the table and the paragraph
//! above it.
ghost use Rattle.adb_schema.specs.Rules.{is_folder_name, is_one_part};
ghost use Rattle.std.specs.Option.{option_map};
ghost use Rattle.std.specs.Prelude.{◌≡◌, IfOk};
ghost use Rattle.v2_core.specs.InfoFields.{field_of_letter};
ghost use Rattle.v2_core.specs.InfoValues.{sha1_in_text};
ghost use Rattle.v2_core.specs.Lines.{file_hash_line, folder_line_if_path, file_line_if_one_part, info_line_or_skipped_if_no_field, record_line_or_skipped_if_letter_unknown, record_line_of};
ghost use Rattle.v2_core.specs.Views.{line_view};

use crate::access::{Access, read_access};
use crate::field::InfoField;
use crate::value::{Value, read_sha1, read_value};
use adb_schema::{is_folder_name, is_one_part};
use std::alloc::{AllocError, Global};

/// The byte between the letter and the value.
const MARK: u8 = b':';

/// The letter of a line that starts a folder.
const FOLDER: u8 = b'F';

/// The letter of a line with the owner and mode of the last folder.
const FOLDER_ACCESS: u8 = b'M';

/// The letter of a line that starts a file.
const FILE: u8 = b'R';

/// The letter of a line with the owner and mode of the last file.
const FILE_ACCESS: u8 = b'a';

/// The letter of a line with the hash of the last file.
const FILE_HASH: u8 = b'Z';

/// The meaning of a record's line (the installed database of apk-tools 2).
#[derive(Drop)]
pub(crate) enum Line<'a> {
    /// A field of the package, and its value.
    Info(InfoField, Value<'a>),
    /// A folder with this path begins; the path of the root is empty.
    Folder(&'a [u8]),
    /// The owner and mode of the last folder.
    FolderAccess(Access<'a>),
    /// A file of this name begins, in the last folder.
    File(&'a [u8]),
    /// The owner and mode of the last file.
    FileAccess(Access<'a>),
    /// The SHA-1 of the bytes of the last file.
    FileHash(Vec<u8>),
    /// A line that has no meaning here, and is skipped.
    Other,
}

/// Reads a line without its line end. None: the line has no `:` after its first byte (the letter),
/// or its value is not in the letter's grammar.
pub(crate) fn read_line<'a>(alloc: Global, line: &'a [u8]) -> Result<Option<Line<'a>>, AllocError>
    ensures { IfOk result (λ found. option_map line_view found ≡ record_line_of line.entry.now) }
{
    match line {
        [letter, MARK, value @ ..] => read_by_letter(alloc, *letter, value),
        _ => Ok(None),
    }
}

// Reads the value of a line by its letter. A line with an unlisted letter is read as `Other`.
#[tactic(auto, unfolding(crate::specs::Lines::record_line_or_skipped_if_letter_unknown))]
fn read_by_letter<'a>(
    alloc: Global,
    letter: u8,
    value: &'a [u8],
) -> Result<Option<Line<'a>>, AllocError>
    // On Ok, the result is the meaning of the line; None if the value is not in the grammar.
    ensures { IfOk result (λ found. option_map line_view found
        ≡ record_line_or_skipped_if_letter_unknown letter value.entry.now) }
{
    match letter {
        FOLDER => Ok(folder_line(value)),
        FOLDER_ACCESS => Ok(read_access(value).map(Line::FolderAccess)),
        FILE => Ok(file_line(value)),
        FILE_ACCESS => Ok(read_access(value).map(Line::FileAccess)),
        FILE_HASH => read_file_hash(alloc, value),
        _ => read_info(alloc, letter, value),
    }
}

// The line that begins a folder of this name, which has to be a path, or empty.
fn folder_line(name: &[u8]) -> Option<Line<'_>>
    ensures { option_map line_view result ≡ folder_line_if_path name.now }
{
    if !is_folder_name(name) {
        return None;
    }
    Some(Line::Folder(name))
}

// The line that begins a file of this name, which has to be one part of a path.
fn file_line(name: &[u8]) -> Option<Line<'_>>
    ensures { option_map line_view result ≡ file_line_if_one_part name.now }
{
    if !is_one_part(name) {
        return None;
    }
    Some(Line::File(name))
}

// Reads the line of a file's hash. None: the value is no SHA-1.
fn read_file_hash<'a>(alloc: Global, value: &[u8]) -> Result<Option<Line<'a>>, AllocError>
    // On Ok, the result is the line of this hash; None if the value is no SHA-1.
    ensures { IfOk result (λ found. option_map line_view found
        ≡ option_map file_hash_line (sha1_in_text value.now)) }
{
    match read_sha1(alloc, value)? {
        Some(bytes) => Ok(Some(Line::FileHash(bytes))),
        None => Ok(None),
    }
}

// Reads a line on the package itself. A line with an unlisted letter is read as `Other`.
fn read_info<'a>(alloc: Global, letter: u8, value: &'a [u8]) -> Result<Option<Line<'a>>, AllocError>
    // On Ok, the result is the meaning of the line; None if the value is not in the grammar.
    ensures { IfOk result (λ found. option_map line_view found
        ≡ info_line_or_skipped_if_no_field (field_of_letter letter) value.entry.now) }
{
    let Some(field) = InfoField::of(letter) else {
        return Ok(Some(Line::Other));
    };
    match read_value(alloc, field, value)? {
        Some(value) => Ok(Some(Line::Info(field, value))),
        None => Ok(None),
    }
}
