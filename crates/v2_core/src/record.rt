//! A record of a text database: its lines on one package, on its folders and on their files. Each
//! function that adds a line returns false if the line is not allowed there. Its clause compares
//! the changed value, or None for false, with the definition. `read.rt` uses `Record`. The rules
//! are in `docs/formats.md`, "Text database of version 2", the table and the two paragraphs after
//! it.
ghost use Rattle.std.specs.List.{find, list_any};
ghost use Rattle.std.specs.Option.{option_map};
ghost use Rattle.std.specs.Prelude.{◌≡◌, ◌++◌, ◌∷◌, [], IfOk, None, OnOk, Some, if◌then◌else◌, is_some, option_and_then};
ghost use Rattle.v2_core.specs.Reading.{record_with_text_line};
ghost use Rattle.v2_core.specs.Records.{empty_record, listed_file_from_parts, file_with_access, file_with_hash, listed_folder_from_parts, folder_with_access, folder_with_file, folder_with_last_file_changed, has_line_of_field, info_line_from_parts, is_line_of_field, lacks_name_or_version_line, with_info_values, list_with_last_changed, with_record_line};
ghost use Rattle.v2_core.specs.Accesses.{access_view};
ghost use Rattle.v2_core.specs.Lines.{record_line_of};
ghost use Rattle.v2_core.specs.Views.{line_view, line_value_view};

use crate::access::Access;
use crate::field::InfoField;
use crate::line::{Line, read_line};
use crate::value::Value;
use std::alloc::{AllocError, Global};
use std::marker::Model;

/// One line on a field of the package.
#[derive(Drop)]
pub(crate) struct InfoLine<'a> {
    /// The field, by the line's letter.
    pub field: InfoField,
    /// The value of the line.
    pub value: Value<'a>,
}

impl<'a> Model for InfoLine<'a> {
    ghost use Rattle.v2_core.specs.Records.{InfoLine as InfoLineModel, info_line_from_parts};
    ghost use Rattle.v2_core.specs.Views.{line_value_view};

    // What contracts see of a line on the package.
    ghost Value = { InfoLineModel };

    // Contracts see the field and the values of the line.
    ghost view = { λ line. info_line_from_parts line.field (line_value_view line.value) };
}

/// A file that a record lists.
#[derive(Drop)]
pub(crate) struct File<'a> {
    /// The name of the file: one part of a path.
    pub name: &'a [u8],
    /// The owner and mode, if a line gave them.
    pub access: Option<Access<'a>>,
    /// The SHA-1 of the bytes of the file, if a line gave it.
    pub hash: Option<Vec<u8>>,
}

impl<'a> Model for File<'a> {
    ghost use Rattle.v2_core.specs.Records.{ListedFile as ListedFileModel, listed_file_from_parts};
    ghost use Rattle.v2_core.specs.Views.{access_view_if_any, hash_view};

    // What contracts see of a file.
    ghost Value = { ListedFileModel };

    // Contracts see the name, the owner and mode, and the hash.
    ghost view = { λ file. listed_file_from_parts file.name.now (access_view_if_any file.access)
        (hash_view file.hash) };
}

impl<'a> File<'a> {
    /// Sets the file's owner and mode. False: they were given before.
    fn add_access(&mut self, access: Access<'a>) -> bool
        // On true, the definition gives the changed value; on false, it gives None.
        ensures { (if result then Some self.new else None)
            ≡ file_with_access (access_view access.entry) self.old }
    {
        if self.access.is_some() {
            return false;
        }
        self.access = Some(access);
        true
    }

    /// Sets the hash of the file. False: it was given before.
    fn add_hash(&mut self, hash: Vec<u8>) -> bool
        // On true, the definition gives the changed value; on false, it gives None.
        ensures { (if result then Some self.new else None)
            ≡ file_with_hash hash.items self.old }
    {
        if self.hash.is_some() {
            return false;
        }
        self.hash = Some(hash);
        true
    }
}

/// A folder that a record lists, with its files.
#[derive(Drop)]
pub(crate) struct Folder<'a> {
    /// The path of the folder; empty for the root.
    pub name: &'a [u8],
    /// The owner and mode, if a line gave them.
    pub access: Option<Access<'a>>,
    /// The files of the folder, in the order of their lines.
    pub files: Vec<File<'a>>,
}

impl<'a> Model for Folder<'a> {
    ghost use Rattle.v2_core.specs.Records.{ListedFolder as ListedFolderModel, listed_folder_from_parts};
    ghost use Rattle.v2_core.specs.Views.{access_view_if_any};

    // What contracts see of a folder.
    ghost Value = { ListedFolderModel };

    // Contracts see the path, the owner and mode, and the files.
    ghost view = { λ folder. listed_folder_from_parts folder.name.now
        (access_view_if_any folder.access)
        folder.files.items };
}

impl<'a> Folder<'a> {
    /// Sets the folder's owner and mode. False: they were given before.
    fn add_access(&mut self, access: Access<'a>) -> bool
        // On true, the definition gives the changed value; on false, it gives None.
        ensures { (if result then Some self.new else None)
            ≡ folder_with_access (access_view access.entry) self.old }
    {
        if self.access.is_some() {
            return false;
        }
        self.access = Some(access);
        true
    }

    /// Adds a file of this name, of which nothing else is known yet, after those of the folder.
    fn add_file(&mut self, name: &'a [u8]) -> Result<(), AllocError>
        ensures { OnOk result (Some self.new ≡ folder_with_file name.entry.now self.old) }
    {
        self.files.push(File {
            name,
            access: None,
            hash: None,
        })?;
        Ok(())
    }

    /// Sets the last file's owner and mode. False: there is no file, or they were given before.
    fn add_file_access(&mut self, access: Access<'a>) -> bool
        // On true, the definition gives the changed value; on false, it gives None.
        ensures { (if result then Some self.new else None)
            ≡ folder_with_last_file_changed (file_with_access (access_view access.entry)) self.old }
    {
        add_access_to_last(&mut self.files, access)
    }

    /// Sets the hash of the last file. False: there is no file, or its hash was given before.
    fn add_file_hash(&mut self, hash: Vec<u8>) -> bool
        // On true, the definition gives the changed value; on false, it gives None.
        ensures { (if result then Some self.new else None)
            ≡ folder_with_last_file_changed (file_with_hash hash.items) self.old }
    {
        add_hash_to_last(&mut self.files, hash)
    }
}

// Sets the owner and mode of the last file. False: there is no file, or they were given before.
fn add_access_to_last<'a>(files: &mut Vec<File<'a>>, access: Access<'a>) -> bool
    // On true, the definition gives the changed files; on false, it gives None.
    ensures { (if result then Some files.new.items else None)
        ≡ list_with_last_changed (file_with_access (access_view access.entry)) files.old.items }
{
    match files.last_mut() {
        Some(file) => file.add_access(access),
        None => false,
    }
}

// Sets the hash of the last file. False: there is no file, or its hash was given before.
fn add_hash_to_last(files: &mut Vec<File<'_>>, hash: Vec<u8>) -> bool
    // On true, the definition gives the changed files; on false, it gives None.
    ensures { (if result then Some files.new.items else None)
        ≡ list_with_last_changed (file_with_hash hash.items) files.old.items }
{
    match files.last_mut() {
        Some(file) => file.add_hash(hash),
        None => false,
    }
}

/// The lines of a text database that describe one package.
#[derive(Drop)]
pub(crate) struct Record<'a> {
    // The allocator of the lists of the record.
    alloc: Global,
    // Whether a line was read; a record without a line is no record.
    has_line: bool,
    /// The lines on the package, in their order.
    pub info: Vec<InfoLine<'a>>,
    /// The folders, in the order of their lines.
    pub folders: Vec<Folder<'a>>,
}

impl<'a> Model for Record<'a> {
    ghost use Rattle.v2_core.specs.Records.{Record as RecordModel, record_from_parts};

    // What contracts see of a record.
    ghost Value = { RecordModel };

    // Contracts see whether there is a line, the lines on the package, and the folders.
    ghost view = { λ r. record_from_parts r.has_line r.info.items r.folders.items };
}

impl<'a> Record<'a> {
    /// A record without a line.
    pub(crate) fn new(alloc: Global) -> Record<'a>
        ensures { result ≡ empty_record }
    {
        Record {
            alloc,
            has_line: false,
            info: Vec::new(alloc),
            folders: Vec::new(alloc),
        }
    }

    /// Drops the record's lines, so that another record can begin.
    pub(crate) fn clear(&mut self)
        ensures { self.new ≡ empty_record }
    {
        self.has_line = false;
        self.info.clear();
        self.folders.clear();
    }

    /// Whether a line of the record was read.
    pub(crate) fn has_line(&self) -> bool
        ensures { result ≡ self.now.has_line }
    {
        self.has_line
    }

    /// Whether the line of the package's name or that of its version is missing.
    pub(crate) fn lacks_name_or_version_line(&self) -> bool
        ensures { result ≡ lacks_name_or_version_line self.now.info }
    {
        !has_line_of_field(&self.info, InfoField::Name)
            || !has_line_of_field(&self.info, InfoField::Version)
    }

    /// Reads a line of a text, and adds it. False: the line is bad.
    pub(crate) fn add_text(&mut self, text: &'a [u8]) -> Result<bool, AllocError>
        // On Ok true, the definition gives the changed value; on Ok false, it gives None.
        ensures { IfOk result (λ good. (if good then Some self.new else None)
            ≡ record_with_text_line self.old text.entry.now) }
    {
        match read_line(self.alloc, text)? {
            Some(line) => self.add(line),
            None => Ok(false),
        }
    }

    /// Adds a line that was read. False: the line is not allowed after those before it.
    fn add(&mut self, line: Line<'a>) -> Result<bool, AllocError>
        // On Ok true, the definition gives the changed value; on Ok false, it gives None.
        ensures { IfOk result (λ good. (if good then Some self.new else None)
            ≡ with_record_line self.old (line_view line.entry)) }
    {
        self.has_line = true;
        match line {
            Line::Info(field, value) => add_info(&mut self.info, field, value),
            Line::Folder(name) => add_folder(self.alloc, &mut self.folders, name),
            Line::FolderAccess(access) => Ok(add_access(&mut self.folders, access)),
            Line::File(name) => add_file(&mut self.folders, name),
            Line::FileAccess(access) => Ok(add_file_access(&mut self.folders, access)),
            Line::FileHash(hash) => Ok(add_file_hash(&mut self.folders, hash)),
            // A line with an unlisted letter is skipped.
            Line::Other => Ok(true),
        }
    }
}

/// Whether one of these lines is of this field.
fn has_line_of_field(info: &[InfoLine<'_>], field: InfoField) -> bool
    ensures { result ≡ has_line_of_field field info.now }
{
    info.iter().any(|line| line.field == field)
}

/// Adds a line on a field. False: the line is a second one of a field that is no list.
fn add_info<'a>(
    info: &mut Vec<InfoLine<'a>>,
    field: InfoField,
    value: Value<'a>,
) -> Result<bool, AllocError>
    // On Ok true, the definition gives the changed value; on Ok false, it gives None.
    ensures { IfOk result (λ good. (if good then Some info.new.items else None)
        ≡ with_info_values field (line_value_view value.entry) info.old.items) }
{
    if !field.is_list_info_field() && has_line_of_field(info, field) {
        return Ok(false);
    }
    info.push(InfoLine { field, value })?;
    Ok(true)
}

/// Adds a folder of this path, of which nothing else is known yet, after those of the record. The
/// result is always true.
fn add_folder<'a>(
    alloc: Global,
    folders: &mut Vec<Folder<'a>>,
    name: &'a [u8],
) -> Result<bool, AllocError>
    // On Ok true, the definition gives the changed value; on Ok false, it gives None.
    ensures { IfOk result (λ good. (if good then Some folders.new.items else None)
        ≡ Some (folders.old.items ++ listed_folder_from_parts name.entry.now None [] ∷ [])) }
{
    folders.push(Folder {
        name,
        access: None,
        files: Vec::new(alloc),
    })?;
    Ok(true)
}

/// Sets the last folder's owner and mode. False: there is no folder, or they were given before.
fn add_access<'a>(folders: &mut Vec<Folder<'a>>, access: Access<'a>) -> bool
    // On true, the definition gives the changed folders; on false, it gives None.
    ensures { (if result then Some folders.new.items else None)
        ≡ list_with_last_changed (folder_with_access (access_view access.entry)) folders.old.items }
{
    match folders.last_mut() {
        Some(folder) => folder.add_access(access),
        None => false,
    }
}

/// Adds a file of this name to the last folder. False: there is no folder.
fn add_file<'a>(folders: &mut Vec<Folder<'a>>, name: &'a [u8]) -> Result<bool, AllocError>
    // On Ok true, the definition gives the changed value; on Ok false, it gives None.
    ensures { IfOk result (λ good. (if good then Some folders.new.items else None)
        ≡ list_with_last_changed (folder_with_file name.entry.now) folders.old.items) }
{
    let Some(folder) = folders.last_mut() else {
        return Ok(false);
    };
    folder.add_file(name)?;
    Ok(true)
}

/// Sets the owner and mode of the last folder's last file. False: there is no such file, or they
/// were given before.
fn add_file_access<'a>(folders: &mut Vec<Folder<'a>>, access: Access<'a>) -> bool
    // On true, the definition gives the changed folders; on false, it gives None.
    ensures { (if result then Some folders.new.items else None)
        ≡ list_with_last_changed (folder_with_last_file_changed (file_with_access
        (access_view access.entry)))
        folders.old.items }
{
    match folders.last_mut() {
        Some(folder) => folder.add_file_access(access),
        None => false,
    }
}

/// Sets the hash of the last folder's last file. False: there is no such file, or its hash was
/// given before.
fn add_file_hash<'a>(folders: &mut Vec<Folder<'a>>, hash: Vec<u8>) -> bool
    // On true, the definition gives the changed folders; on false, it gives None.
    ensures { (if result then Some folders.new.items else None)
        ≡ list_with_last_changed (folder_with_last_file_changed
        (file_with_hash hash.items)) folders.old.items }
{
    match folders.last_mut() {
        Some(folder) => folder.add_file_hash(hash),
        None => false,
    }
}
