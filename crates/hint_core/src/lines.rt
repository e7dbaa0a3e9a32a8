//! The lines of hints. The rules are in `docs/commands.md`, "Hints".
ghost use Rattle.std.specs.Prelude.{◌≡◌, ◌++◌, codes, IfOk, OnOk};
ghost use Rattle.adb_view.specs.Schema.{field_name_text};
ghost use Rattle.hint_core.specs.Hints.{hint_file_name};
ghost use Rattle.hint_core.specs.Lines.{absent_file_end, database_file_name_of, field_line, hint_line, hint_lines, information_end, line_hint_end, line_hint_line, missing_information_line, repository_hint_line, table_text, unowned_end, word_line};

use crate::hint::{Hint, HintFile, Hints};
use crate::printed::{printed, push_texts};
use adb_view::{FieldName, Which};
use itoa::Buffer;
use std::alloc::{AllocError, Global};

/// The lines of both hints of a refusal: first on what it is about, then on its cause.
pub fn hint_lines(alloc: Global, hints: &Hints) -> Result<Vec<u8>, AllocError>
    ensures { IfOk result (λ lines. lines.items ≡ hint_lines hints.now) }
{
    let mut lines = Vec::new(alloc);
    push_hint(alloc, &mut lines, &hints.subject)?;
    push_hint(alloc, &mut lines, &hints.cause)?;
    Ok(lines)
}

// Adds the line of a hint; nothing for `Hint::Nothing`.
fn push_hint(alloc: Global, lines: &mut Vec<u8>, hint: &Hint) -> Result<(), AllocError>
    ensures { OnOk result (lines.new.items ≡ lines.old.items ++ hint_line hint.now) }
{
    match hint {
        // Hints on the word at a place.
        Hint::Word { place, word } => push_word(alloc, lines, *place, word.as_bytes(), b""),
        Hint::AbsentFile { place, word } => {
            push_word(alloc, lines, *place, word.as_bytes(), absent_file_end())
        }
        Hint::Unowned { place, word } => {
            push_word(alloc, lines, *place, word.as_bytes(), unowned_end())
        }
        Hint::Information { place, word } => {
            push_word(alloc, lines, *place, word.as_bytes(), information_end())
        }
        Hint::Missing { place } => push_missing(lines, *place),
        // Hints on files of the root.
        Hint::Repository { number, line, path } => {
            push_repository(alloc, lines, *number, *line, path.as_bytes())
        }
        Hint::Line { file, line, text } => push_line(alloc, lines, *file, *line, text.as_bytes()),
        Hint::Database { is_container } => push_texts(
            lines,
            &[
                b"apk: the package database is ",
                database_file_name_of(*is_container),
                b"; restore it, or read IF THE DATABASE IS DAMAGED in apk(8)\n",
            ],
        ),
        // Hints on what to do.
        Hint::AbsentDatabase => push_texts(
            lines,
            &[
                b"apk: this folder has no lib/apk/db/installed.adb; if it is the root, ",
                b"apk add --initdb --allow-untrusted makes one\n",
            ],
        ),
        Hint::SharedPath => push_texts(
            lines,
            &[
                b"apk: to have both, make one of them again with mkpkg -I replaces:NAME-OF-THE-OTHER, ",
                b"and then the index\n",
            ],
        ),
        Hint::Journal => push_texts(
            lines,
            &[
                b"apk: another program has written lib/apk/intent; move it away, and run apk audit\n",
            ],
        ),
        Hint::Untrusted => push_texts(
            lines,
            &[
                b"apk: apk checks no signatures; to use the indexes in etc/apk/repositories ",
                b"nonetheless, give --allow-untrusted\n",
            ],
        ),
        Hint::AbsentPackage => push_texts(
            lines,
            &[
                b"apk: fix needs an index that lists the installed package; ",
                b"if none does, run apk upgrade\n",
            ],
        ),
        Hint::OtherPackage => push_texts(
            lines,
            &[
                b"apk: the index lists another file of this name; make the index again with ",
                b"apk mkndx, or put the listed file there\n",
            ],
        ),
        // Hints on the cause of a refusal.
        Hint::Damaged => push_texts(
            lines,
            &[b"apk: the file may be damaged; copy it again, or make it again\n"],
        ),
        Hint::Foreign => push_texts(
            lines,
            &[
                b"apk: apk reads only uncompressed ADB files, as apk mkpkg and apk mkndx make them, ",
                b"and no packages of mirrors\n",
            ],
        ),
        Hint::Field { place, table, name } => push_field(lines, *place, *table, *name),
        Hint::Schema { table } => push_texts(
            lines,
            &[
                b"apk: by its schema, the file is ",
                table_text(*table),
                b"\n",
            ],
        ),
        Hint::UnknownSchema => push_texts(
            lines,
            &[b"apk: by its schema, the file is nothing that apk reads\n"],
        ),
        Hint::Nothing => Ok(()),
    }
}

// Adds the line of the word at a place; the text `end` follows the word.
fn push_word(
    alloc: Global,
    lines: &mut Vec<u8>,
    place: u32,
    word: &[u8],
    end: &[u8],
) -> Result<(), AllocError>
    ensures { OnOk result (lines.new.items ≡ lines.old.items ++ word_line place word.now end.now) }
{
    let shown = printed(alloc, word)?;
    let mut digits = Buffer::new();
    push_texts(
        lines,
        &[
            b"apk: word ",
            digits.format(place).as_bytes(),
            b" is ",
            &shown,
            end,
            b"\n",
        ],
    )
}

// What follows a word in its line if the word names no file.
fn absent_file_end() -> &'static [u8]
    ensures { result.now ≡ absent_file_end }
{
    b"; its path must be that of a file below this folder, and not of a folder"
}

// What follows a word in its line if the word is a path that no package owns.
fn unowned_end() -> &'static [u8]
    ensures { result.now ≡ unowned_end }
{
    b"; no installed package owns this path"
}

// What follows a word in its line if the word is no valid information of a package.
fn information_end() -> &'static [u8]
    ensures { result.now ≡ information_end }
{
    b"; the field or its value is invalid, or the field was given before; see apk mkpkg --help"
}

// Adds the line that says that information of a package is missing, for which there is no word at
// this place.
fn push_missing(lines: &mut Vec<u8>, place: u32) -> Result<(), AllocError>
    ensures { OnOk result (lines.new.items ≡ lines.old.items ++ missing_information_line place) }
{
    let mut digits = Buffer::new();
    push_texts(
        lines,
        &[
            b"apk: there is no word ",
            digits.format(place).as_bytes(),
            b": a package needs -I name:NAME and -I version:VERSION\n",
        ],
    )
}

// Adds the line of the repository with a number: the path of its index, and the number of the line
// that names it.
fn push_repository(
    alloc: Global,
    lines: &mut Vec<u8>,
    number: u64,
    line: u64,
    path: &[u8],
) -> Result<(), AllocError>
    ensures { OnOk result (lines.new.items
        ≡ lines.old.items ++ repository_hint_line number line path.now) }
{
    let shown = printed(alloc, path)?;
    let mut number_digits = Buffer::new();
    let mut line_digits = Buffer::new();
    push_texts(
        lines,
        &[
            b"apk: repository ",
            number_digits.format(number).as_bytes(),
            b" is ",
            &shown,
            b", line ",
            line_digits.format(line).as_bytes(),
            b" of etc/apk/repositories; this must be the file of an index: correct the line, or make ",
            b"the file with apk mkndx -o INDEX PACKAGES\n",
        ],
    )
}

// Adds the hint on a line of a file: its number, the file, and its text.
fn push_line(
    alloc: Global,
    lines: &mut Vec<u8>,
    file: HintFile,
    line: u64,
    text: &[u8],
) -> Result<(), AllocError>
    ensures { OnOk result (lines.new.items ≡ lines.old.items ++ line_hint_line file line text.now) }
{
    let shown = printed(alloc, text)?;
    let mut digits = Buffer::new();
    push_texts(
        lines,
        &[
            b"apk: line ",
            digits.format(line).as_bytes(),
            b" of ",
            file_text(file),
            b" is ",
            &shown,
            line_hint_end(file),
            b"\n",
        ],
    )
}

// What follows the text of a line of a file: what such a line has to be.
fn line_hint_end(file: HintFile) -> &'static [u8]
    ensures { result.now ≡ line_hint_end file }
{
    match file {
        HintFile::World => {
            b"; a line has one dependency, such as app or app>=1.2, and none repeats a name"
        }
        HintFile::Repositories => {
            b"; a line has the path of an index file below this folder, and no URL"
        }
        HintFile::TextDatabase => b"",
    }
}

// Adds the line of the field at a place: its name, and what the objects of its table are.
fn push_field(
    lines: &mut Vec<u8>,
    place: u16,
    table: Which,
    name: FieldName,
) -> Result<(), AllocError>
    ensures { OnOk result (lines.new.items
        ≡ lines.old.items ++ field_line place table (field_name_text name)) }
{
    let mut digits = Buffer::new();
    push_texts(
        lines,
        &[
            b"apk: field ",
            digits.format(place).as_bytes(),
            b" is '",
            name.text().as_bytes(),
            b"' of ",
            table_text(table),
            b"\n",
        ],
    )
}

// The path of a file of which refusals report lines by their numbers.
fn file_text(file: HintFile) -> &'static [u8]
    ensures { result.now ≡ hint_file_name file }
{
    match file {
        HintFile::World => b"etc/apk/world",
        HintFile::Repositories => b"etc/apk/repositories",
        HintFile::TextDatabase => b"lib/apk/db/installed",
    }
}

// The path of the file that has the database: a container, or else a text.
fn database_file_name_of(is_container: bool) -> &'static [u8]
    ensures { result.now ≡ database_file_name_of is_container }
{
    if is_container {
        b"lib/apk/db/installed.adb"
    } else {
        b"lib/apk/db/installed"
    }
}

// What an object of a table is, as lines name it.
fn table_text(table: Which) -> &'static [u8]
    ensures { result.now ≡ table_text table }
{
    match table {
        Which::Dep => b"a dependency",
        Which::Acl => b"an access list",
        Which::PkgInfo => b"the information of a package",
        Which::File => b"a file",
        Which::Dir => b"a folder",
        Which::Scripts => b"the scripts of a package",
        Which::Package => b"a package",
        Which::Index => b"an index",
        Which::Idb => b"an installed database",
        Which::Intent => b"a journal entry",
    }
}
