//! The rules for single texts of a container (apk-v3(5), apk-package(5)), and the names below a
//! root that no database may list as files. The rules are in `docs/formats.md`, "The texts": its
//! table, and the paragraph on reserved names below it.

ghost use Rattle.std.specs.Prelude.{◌≡◌, ◌==◌, nat_le, length, ◌∷◌};
ghost use Rattle.std.specs.Str.{is_utf8};
ghost use Rattle.version_core.specs.Order.{is_version};
ghost use Rattle.dep_core.specs.Value.{is_match_number, is_version_or_empty};
ghost use Rattle.adb_fields.specs.Paths.{path_of};
ghost use Rattle.adb_schema.specs.Rules.{is_digest_length, is_digest_length_or_none, is_folder_name, is_id_length, is_link_target, is_supported_pkgname_spec, is_one_part, is_link_target_or_none};
ghost use Rattle.adb_schema.specs.Reserved.{is_at_or_below, is_intent_or_stage_name, is_reserved};

use base_core::is_name;
use dep_core::has_slash;
use std::str;
use version_core::{Op, Version};

/// The most bytes that a path has (`docs/commands.md`, "Words").
const MOST: usize = 1024;

/// The first two bytes of the text of a link: the type of a symbolic link, 0xa000, little-endian.
const LINK: [u8; 2] = [0x00, 0xa0];

/// How an index names its packages' files: the only known pattern (803).
const NAME_PATTERN: &[u8] = b"${name}-${version}.apk";

/// Whether this is the length of a SHA-1, a SHA-256 or a SHA-512 in bytes.
pub(crate) fn is_digest_length(len: usize) -> bool
    ensures { result ≡ is_digest_length len }
{
    len == 20 || len == 32 || len == 64
}

/// Whether this is the length of a digest in bytes, or 0.
pub(crate) fn is_digest_length_or_none(len: usize) -> bool
    ensures { result ≡ is_digest_length_or_none len }
{
    len == 0 || is_digest_length(len)
}

/// Whether this is the length in bytes of a package's id in an index: a SHA-256, or its first 20
/// bytes.
pub(crate) fn is_id_length(len: usize) -> bool
    ensures { result ≡ is_id_length len }
{
    len == 20 || len == 32
}

/// Whether the bytes are a version.
pub(crate) fn is_version(text: &[u8]) -> bool
    ensures { result ≡ is_version text.now }
{
    match Version::read(text) {
        Some(_) => true,
        None => false,
    }
}

/// Whether the bytes are empty or a version.
pub(crate) fn is_version_or_empty(text: &[u8]) -> bool
    ensures { result ≡ is_version_or_empty text.now }
{
    text.is_empty() || is_version(text)
}

/// Whether the number is a dependency's match number: its low four bits are an operator, and only
/// the next bit (16, a conflict) may be set besides them.
pub(crate) fn is_match_number(number: u64) -> bool
    ensures { result ≡ is_match_number number }
{
    if number >= 32 {
        return false;
    }
    // The low four bits are the comparison results that the operator accepts.
    match Op::of((number % 16) as u8) {
        Some(_) => true,
        None => false,
    }
}

/// Whether the bytes name a folder: a path, or nothing for the root folder.
pub fn is_folder_name(name: &[u8]) -> bool
    ensures { result ≡ is_folder_name name.now }
{
    name.is_empty() || is_name(name)
}

/// Whether the bytes are one part of a path: a name without a slash.
pub fn is_one_part(name: &[u8]) -> bool
    ensures { result ≡ is_one_part name.now }
{
    is_name(name) && !has_slash(name)
}

/// Whether a file of this name has a path of at most 1,024 bytes in the folder.
pub(crate) fn fits_in(folder: &[u8], name: &[u8]) -> bool
    ensures { result ≡ nat_le (length (path_of folder.now name.now)) 1024 }
{
    if folder.is_empty() {
        return name.len() <= MOST;
    }
    // The path is the folder, a slash and the name: at most 1,024 bytes together.
    name.len() < MOST && folder.len() < MOST - name.len()
}

/// Whether the bytes are a file's target: empty, or a link's.
pub(crate) fn is_link_target_or_none(bytes: &[u8]) -> bool
    ensures { result ≡ is_link_target_or_none bytes.now }
{
    bytes.is_empty() || is_link_target(bytes)
}

/// Whether bytes are the two bytes `LINK` and after them a UTF-8 text that is not empty.
fn is_link_target(bytes: &[u8]) -> bool
    ensures { result ≡ is_link_target bytes.now }
{
    match bytes.strip_prefix(LINK.as_slice()) {
        Some(text) => !text.is_empty() && is_text(text),
        None => false,
    }
}

/// Whether bytes are UTF-8.
fn is_text(bytes: &[u8]) -> bool
    ensures { result ≡ is_utf8 bytes.now }
{
    match str::from_utf8(bytes) {
        Ok(_) => true,
        Err(_) => false,
    }
}

/// Whether the bytes are the pattern of an index: empty, or `${name}-${version}.apk`.
pub(crate) fn is_supported_pkgname_spec(pattern: &[u8]) -> bool
    ensures { result ≡ is_supported_pkgname_spec pattern.now }
{
    pattern.is_empty() || pattern == NAME_PATTERN
}

/// Whether a path is part of the journal or of the staging area: `lib/apk/intent`, `lib/apk/stage`,
/// or a name below one of them.
pub fn is_intent_or_stage_name(path: &[u8]) -> bool
    ensures { result ≡ is_intent_or_stage_name path.now }
{
    is_at_or_below(b"lib/apk/intent", path) || is_at_or_below(b"lib/apk/stage", path)
}

/// Whether a path is reserved: `etc/apk/world`, `lib/apk/intent`, `lib/apk/stage`, `lib/apk/db`, or
/// a name below one of them.
pub fn is_reserved(path: &[u8]) -> bool
    ensures { result ≡ is_reserved path.now }
{
    is_at_or_below(b"etc/apk/world", path)
        || is_at_or_below(b"lib/apk/intent", path)
        || is_at_or_below(b"lib/apk/stage", path)
        || is_at_or_below(b"lib/apk/db", path)
}

/// Whether the path of this file of this folder is reserved. The root folder's name is empty.
pub fn is_reserved_file(folder: &[u8], name: &[u8]) -> bool
    ensures { result ≡ is_reserved (path_of folder.now name.now) }
{
    is_file_at_or_below(b"etc/apk/world", folder, name)
        || is_file_at_or_below(b"lib/apk/intent", folder, name)
        || is_file_at_or_below(b"lib/apk/stage", folder, name)
        || is_file_at_or_below(b"lib/apk/db", folder, name)
}

/// Whether `path` is the name `top`, or a name below the folder `top`.
fn is_at_or_below(top: &[u8], path: &[u8]) -> bool
    ensures { result ≡ is_at_or_below top.now path.now }
{
    match path.strip_prefix(top) {
        Some(rest) => rest.is_empty() || rest[0] == b'/',
        None => false,
    }
}

/// Whether the path of this file of this folder is the name `top`, or a name below it. The folder
/// and the file name are compared separately, without joining them.
fn is_file_at_or_below(top: &[u8], folder: &[u8], name: &[u8]) -> bool
    ensures { result ≡ is_at_or_below top.now (path_of folder.now name.now) }
{
    if folder.is_empty() {
        return is_at_or_below(top, name);
    }
    // Either `top` begins with the folder, and then `rest` is compared with the slash and the name;
    // or the file is at or below `top` only if its folder is.
    match top.strip_prefix(folder) {
        Some(rest) => is_at_or_below_slash(rest, name),
        None => is_at_or_below(top, folder),
    }
}

/// Whether the path `/NAME` is `top`, or a path below `top`. Here `top` is what is left of a
/// reserved name after the folder with which it begins.
fn is_at_or_below_slash(top: &[u8], name: &[u8]) -> bool
    ensures { result ≡ is_at_or_below top.now (47 ∷ name.now) }
{
    match top.split_first() {
        Some((first, rest)) => *first == b'/' && is_at_or_below(rest, name),
        None => true,
    }
}
