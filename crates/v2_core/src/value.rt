//! The values of lines: hashes, numbers, and lists of dependencies.
//! The rules are in `docs/formats.md`, "Text database of version 2", the column of values.
ghost use Rattle.dep_core.specs.Meets.{dependency};
ghost use Rattle.hex.specs.Hex.{decode_of};
ghost use Rattle.base64.specs.Engines.{standard};
ghost use Rattle.base64.specs.GeneralPurpose.{decode_of as base64_bytes};
ghost use Rattle.make_info.specs.Fields.{decimal_number_without_leading_zeros, dependency_values_of_parts, nonempty_parts_between_spaces, text_value_if};
ghost use Rattle.make_info.specs.Reading.{nonempty_part};
ghost use Rattle.std.specs.Option.{option_map};
ghost use Rattle.std.specs.Prelude.{◌≡◌, ◌++◌, ◌==◌, IfOk, None, Some, if◌then◌else◌, length};
ghost use Rattle.v2_core.specs.InfoFields.{grammar_of};
ghost use Rattle.v2_core.specs.InfoValues.{commit_values, list_of_one_number_value, list_of_one_text_value, sha1_in_text, bytes_if_twenty, values_under_grammar, with_needs};
ghost use Rattle.v2_core.specs.Views.{bytes_view, needs_view, line_value_view};

use crate::field::{Grammar, InfoField};
use base64::DecodeAllocError;
use base64::engine::general_purpose::STANDARD;
use dep_core::{Dep, is_package_name};
use hex::FromHexError;
use make_info::{read_need, read_number};
use std::alloc::{AllocError, Global};
use version_core::Version;

/// How many bytes a SHA-1 has.
const SHA1_LEN: usize = 20;

/// The value of a line for its field.
#[derive(Drop)]
pub(crate) enum Value<'a> {
    /// The unchanged text.
    Text(&'a [u8]),
    /// The bytes of a hash or of a commit, decoded.
    Bytes(Vec<u8>),
    /// A number.
    Number(u64),
    /// Dependencies, in their order.
    Needs(Vec<Dep<'a>>),
    /// Nothing: the text of a commit that is not hexadecimal is dropped.
    Nothing,
}

/// Reads the text after the colon of a line as the value of a field. None: the text is not in the
/// field's grammar.
pub(crate) fn read_value<'a>(
    alloc: Global,
    field: InfoField,
    text: &'a [u8],
) -> Result<Option<Value<'a>>, AllocError>
    // On Ok, the result has the values that the text gives; None if it is not in the grammar.
    ensures { IfOk result (λ found. option_map line_value_view found
        ≡ values_under_grammar (grammar_of field) text.entry.now) }
{
    match field.grammar() {
        Grammar::Sha1Text => read_bytes(alloc, text),
        Grammar::PackageName => Ok(text_value_if(text, is_package_name(text))),
        Grammar::PackageVersion => Ok(text_value_if(text, Version::read(text).is_some())),
        // Any text is allowed.
        Grammar::AnyText => Ok(text_value_if(text, true)),
        Grammar::Number => Ok(number_value(text)),
        Grammar::Commit => read_commit(alloc, text),
        Grammar::Dependencies => read_needs(alloc, text),
    }
}

// A text as a value; `is_good` says whether the grammar of its field allows the text.
fn text_value_if(text: &[u8], is_good: bool) -> Option<Value<'_>>
    ensures { option_map line_value_view result ≡ text_value_if is_good text.now }
{
    if !is_good {
        return None;
    }
    Some(Value::Text(text))
}

// A number as a value. None: the text is no number below 2^64, or has a leading zero.
fn number_value<'a>(digits: &[u8]) -> Option<Value<'a>>
    // The result is the number in these digits, or None.
    ensures { option_map line_value_view result
        ≡ option_map list_of_one_number_value (decimal_number_without_leading_zeros digits.now) }
{
    let n = read_number(digits)?;
    Some(Value::Number(n))
}

// A hash as a value: `Q1` and its base64. None: the text is no such hash.
fn read_bytes<'a>(alloc: Global, text: &[u8]) -> Result<Option<Value<'a>>, AllocError>
    // On Ok, the result has the SHA-1 in the text, or is None.
    ensures { IfOk result (λ found. option_map line_value_view found
        ≡ option_map list_of_one_text_value (sha1_in_text text.now)) }
{
    match read_sha1(alloc, text)? {
        Some(bytes) => Ok(Some(Value::Bytes(bytes))),
        None => Ok(None),
    }
}

/// The SHA-1 in a text of the form `Q1` and its base64 (RFC 4648); None for another text.
pub(crate) fn read_sha1(alloc: Global, text: &[u8]) -> Result<Option<Vec<u8>>, AllocError>
    ensures { IfOk result (λ found. option_map bytes_view found ≡ sha1_in_text text.now) }
{
    match text {
        [b'Q', b'1', encoded @ ..] => read_twenty_bytes(alloc, encoded),
        _ => Ok(None),
    }
}

// The bytes of a base64 text, if there are as many as a SHA-1 has.
fn read_twenty_bytes(alloc: Global, encoded: &[u8]) -> Result<Option<Vec<u8>>, AllocError>
    // On Ok, the result is the decoded bytes if they are twenty, or None.
    ensures { IfOk result (λ found. option_map bytes_view found
        ≡ bytes_if_twenty (base64_bytes standard encoded.now)) }
{
    match STANDARD.decode(alloc, encoded) {
        Ok(bytes) if bytes.len() == SHA1_LEN => Ok(Some(bytes)),
        Ok(_) => Ok(None),
        Err(DecodeAllocError::DecodeError(_)) => Ok(None),
        Err(DecodeAllocError::OutOfMemory) => Err(AllocError),
    }
}

// A commit as a value: the bytes of pairs of hexadecimal digits; another text is dropped.
fn read_commit<'a>(alloc: Global, text: &[u8]) -> Result<Option<Value<'a>>, AllocError>
    // On Ok, the result has the bytes of the commit, or no value; no text is refused.
    ensures { IfOk result (λ found. option_map line_value_view found
        ≡ Some (commit_values (decode_of text.now))) }
{
    match hex::decode(alloc, text) {
        Ok(bytes) => Ok(Some(Value::Bytes(bytes))),
        Err(FromHexError::OutOfMemory) => Err(AllocError),
        Err(_) => Ok(Some(Value::Nothing)),
    }
}

// The dependencies in a text, with spaces between them, as a value. None: one part of the text is
// no dependency, or has a tag.
fn read_needs<'a>(alloc: Global, text: &'a [u8]) -> Result<Option<Value<'a>>, AllocError>
    // On Ok, the result has the dependencies of all parts that are not empty, or is None.
    ensures { IfOk result (λ found. option_map line_value_view found
        ≡ dependency_values_of_parts (nonempty_parts_between_spaces text.entry.now)) }
{
    let mut needs = Vec::new(alloc);
    for part in text.split(|byte| *byte == b' ') {
        if !add_need(&mut needs, part)? {
            return Ok(None);
        }
    }
    Ok(Some(Value::Needs(needs)))
}

// Adds the dependency in a part of a text, or nothing for an empty part. False: the part is no
// dependency, or has a tag.
fn add_need<'a>(needs: &mut Vec<Dep<'a>>, part: &'a [u8]) -> Result<bool, AllocError>
    // On Ok true, the definition gives the longer list; on Ok false, it gives None.
    ensures { IfOk result (λ good. (if good then Some (needs_view needs.new) else None)
        ≡ with_needs (needs_view needs.old) (dependency_values_of_parts
        (nonempty_part part.entry.now))) }
{
    if part.is_empty() {
        return Ok(true);
    }
    match read_need(part) {
        Some(need) => {
            needs.push(need)?;
            Ok(true)
        }
        None => Ok(false),
    }
}
