//! Which paths are protected (those below `etc`), and the names `PATH.apk-new` of files that are
//! written beside the user's files.
//! The rule is in `docs/commands.md`, "What a change does with files": what is said there of
//! configuration files, and of `PATH.apk-new`.

ghost use Rattle.std.specs.Prelude.{◌≡◌, ◌≤◌, IfOk, length, option_map};
ghost use Rattle.path_claim_lists.specs.adb_fields.JoinedPath.{joined_path};
ghost use Rattle.own_core.specs.Fate.{apk_new_name, is_protected_path, most_name_bytes};
ghost use Rattle.own_core.specs.FilesAfter.{path_of_apk_new_name};

use base_core::Name;
use path_claim_lists::FilePath;
use std::alloc::{AllocError, Global};

/// How many bytes a name may have at most (`docs/commands.md`, "Words").
pub(crate) const LONGEST_NAME: usize = 1024;

/// The ending of the name of a file that is written beside the user's file.
const ASIDE_ENDING: &[u8] = b".apk-new";

/// Whether a path is protected: it is below `etc`. The path may have a folder and a name, or its
/// folder may be empty and all of the path in the name.
pub(crate) fn is_protected_path(path: &FilePath<'_>) -> bool
    ensures { result ≡ is_protected_path (joined_path path.now) }
{
    if path.folder.is_empty() {
        return path.name.starts_with(b"etc/");
    }
    path.folder == b"etc".as_slice() || path.folder.starts_with(b"etc/")
}

/// The bytes `NAME.apk-new` for a name, which may be too long for a name.
pub(crate) fn aside_bytes(alloc: Global, name: &[u8]) -> Result<Vec<u8>, AllocError>
    ensures { IfOk result (λ bytes. bytes.items ≡ apk_new_name name.now) }
{
    let mut bytes = Vec::from_slice(alloc, name)?;
    bytes.extend_from_slice(ASIDE_ENDING)?;
    Ok(bytes)
}

/// The name `NAME.apk-new` for a name.
pub fn name_beside(alloc: Global, name: &Name) -> Result<Name, AllocError>
    // The result is not too long for a name.
    requires { length (apk_new_name name.now) ≤ most_name_bytes }
    ensures { IfOk result (λ beside. beside ≡ apk_new_name name.now) }
{
    let bytes = aside_bytes(alloc, name.as_bytes())?;
    Name::of(alloc, &bytes)
}

/// The path without its ending `.apk-new`: that of the file beside which a file with the given path
/// is written. None if the path does not have this ending.
pub(crate) fn path_of_apk_new_name<'a>(path: &FilePath<'a>) -> Option<FilePath<'a>>
    ensures { option_map joined_path result ≡ path_of_apk_new_name (joined_path path.now) }
{
    match path.name.strip_suffix(ASIDE_ENDING) {
        Some(name) => Some(FilePath {
            folder: path.folder,
            name,
        }),
        None => None,
    }
}
