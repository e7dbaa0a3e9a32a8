//! Writes the payloads of indexes from short texts. Packages are separated by `;`, and their parts
//! by spaces:
//!
//! - `NAME=VERSION`, and `N*` before it for N such packages;
//! - `d:` and depends, `p:` and provides, `i:` and install-if, each list with `,` between
//!   dependencies;
//! - `k:` and the provider-priority;
//! - `h:` and the id, which is empty after a bare `h:`; all packages without an `h:` have the same
//!   id.
//!
//! The README of this crate describes the same form. The fields are those of `docs/formats.md`,
//! "Schemas", table 3 (package information); their numbers count from 0 here.
use crate::row::number_of;
use adb_view::Val;
use adb_write::Writer;
use dep_core::{Dep, read_dep};
use row_lines::value_named;
use std::alloc::{AllocError, Global};

/// How the value of a field is written.
#[derive(Clone, Copy)]
enum Form {
    /// As a list of dependencies, with `,` between them.
    Dependencies,
    /// As a decimal number.
    Number,
    /// As the bytes of the value.
    Bytes,
}

/// For each prefix of a part: the number, counted from 0, of its field in the package information,
/// and how the value of the field is written.
const FIELDS: [(&[u8], (usize, Form)); 5] = [
    // Depends.
    (b"d:", (14, Form::Dependencies)),
    // Provides.
    (b"p:", (15, Form::Dependencies)),
    // Install-if.
    (b"i:", (17, Form::Dependencies)),
    // Provider priority.
    (b"k:", (13, Form::Number)),
    // The id of the package.
    (b"h:", (2, Form::Bytes)),
];

/// The payload of an index with the packages of a text. Text that is no part of a package is
/// skipped. If the index exceeds a limit, the result is empty.
pub(crate) fn index_payload(alloc: Global, text: &[u8]) -> Result<Vec<u8>, AllocError> {
    let mut writer = Writer::new(alloc);
    let root = index_value(alloc, &mut writer, text)?;
    match writer.finish(root) {
        Ok(payload) => Ok(payload),
        Err(_) => Ok(Vec::new(alloc)),
    }
}

// Writes the value of an index with the packages of a text.
fn index_value(alloc: Global, writer: &mut Writer, text: &[u8]) -> Result<Val, AllocError> {
    let mut packages = Vec::new(alloc);
    for part in text.split(|byte| *byte == b';') {
        add_packages(alloc, writer, &mut packages, part)?;
    }
    let list = writer.arr(packages.as_slice())?;
    // The first field of an index, its description, is null.
    writer.obj(&[Val::of(0), list])
}

// Adds the package of a text to a list, as often as the text says by `N*` at its start (else once).
fn add_packages(
    alloc: Global,
    writer: &mut Writer,
    packages: &mut Vec<Val>,
    part: &[u8],
) -> Result<(), AllocError> {
    // How often the package is added, and the text of the package.
    let (count, text) = match part.iter().position(|byte| *byte == b'*') {
        Some(at) => (number_of(&part[..at]), &part[at + 1..]),
        None => (1, part),
    };
    let package = package_value(alloc, writer, text)?;
    if package.is_null() {
        return Ok(());
    }
    for _ in 0..count {
        packages.push(package)?;
    }
    Ok(())
}

// The value of the information of a package, or null if the text has no name. It has the first 18
// fields: field 0 is the name, 1 the version, and 2 the id, which is the same for all texts without
// one.
fn package_value(alloc: Global, writer: &mut Writer, part: &[u8]) -> Result<Val, AllocError> {
    let mut fields = [Val::of(0); 18];
    if part.is_empty() {
        return Ok(Val::of(0));
    }
    // The id of a package whose text has no id.
    fields[2] = writer.blob(b"01234567890123456789")?;
    for word in part.split(|byte| *byte == b' ') {
        add_field(alloc, writer, &mut fields, word)?;
    }
    if fields[0].is_null() {
        return Ok(Val::of(0));
    }
    writer.obj(&fields)
}

// Writes the field of a package that a word gives. A word without a known prefix gives the name and
// the version.
fn add_field(
    alloc: Global,
    writer: &mut Writer,
    fields: &mut [Val; 18],
    word: &[u8],
) -> Result<(), AllocError> {
    // The prefix of the word, such as `d:`, and what follows it; then the number of the field.
    let (prefix, rest) = word.split_at(word.len().min(2));
    let Some((place, form)) = value_named(&FIELDS, prefix) else {
        return add_name(writer, fields, word);
    };
    let value = match form {
        Form::Dependencies => list_value(alloc, writer, rest),
        Form::Number => writer.int(number_of(rest)),
        Form::Bytes => writer.blob(rest),
    }?;
    if place < fields.len() {
        fields[place] = value;
    }
    Ok(())
}

// Sets the name (field 0) and the version (field 1) of a package, which the word has in the form of
// a dependency, such as `NAME=VERSION`.
fn add_name(writer: &mut Writer, fields: &mut [Val; 18], word: &[u8]) -> Result<(), AllocError> {
    if let Some(dep) = read_dep(word) {
        fields[0] = writer.blob(dep.name)?;
        fields[1] = version_value(writer, &dep)?;
    }
    Ok(())
}

// Writes the value of a list of dependencies. Text that is no dependency is skipped.
fn list_value(alloc: Global, writer: &mut Writer, list: &[u8]) -> Result<Val, AllocError> {
    let mut values = Vec::new(alloc);
    for text in list.split(|byte| *byte == b',') {
        if let Some(dep) = read_dep(text) {
            values.push(dep_value(writer, &dep)?)?;
        }
    }
    writer.arr(values.as_slice())
}

// Writes the value of a dependency: its name, its version and its match number. This number has the
// match bits of the operator, and 16 more for a conflict. It is 23 for a conflict without version,
// and null for a name alone (`docs/formats.md`, "Dependencies").
fn dep_value(writer: &mut Writer, dep: &Dep<'_>) -> Result<Val, AllocError> {
    let name = writer.blob(dep.name)?;
    let version = version_value(writer, dep)?;
    let bits = u64::from(dep.op.bits());
    // By whether the dependency is a conflict, and whether it has a version.
    let number = match (dep.conflict, dep.version.is_some()) {
        (false, false) => 0,
        (false, true) => bits,
        (true, false) => 23,
        (true, true) => 16 | bits,
    };
    if number == 0 {
        return writer.obj(&[name, version, Val::of(0)]);
    }
    let matching = writer.int(number)?;
    writer.obj(&[name, version, matching])
}

// Writes the version that a dependency names, or null if it names none.
fn version_value(writer: &mut Writer, dep: &Dep<'_>) -> Result<Val, AllocError> {
    match &dep.version {
        None => Ok(Val::of(0)),
        Some(version) => writer.blob(version.text()),
    }
}
