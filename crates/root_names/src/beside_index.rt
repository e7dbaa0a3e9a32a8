//! The path of a package's file: `NAME-VERSION.apk`, beside the index that has the package.
//! The rule is in `docs/commands.md`, "`add` and `del`", **What is read**; which bytes are a name,
//! in "Words" there.
ghost use Rattle.root_names.specs.PackagePath.{path_up_to_last_slash, path_if_valid_name, package_path};
ghost use Rattle.std.specs.Prelude.{◌≡◌, IfOk};

use base_core::Name;
use std::alloc::{AllocError, Global};

/// The name of the file of the package `name` in this version, in the folder of the index. None if
/// the path is no valid name.
pub fn package_file_beside(
    alloc: Global,
    index: &Name,
    name: &[u8],
    version: &[u8],
) -> Result<Option<Name>, AllocError>
    ensures { IfOk result (λ file. file
        ≡ path_if_valid_name (package_path index.now name.now version.now)) }
{
    let path = package_path(alloc, index.as_bytes(), name, version)?;
    Name::read(alloc, &path)
}

/// The path of the file of the package `name` in this version: the folder of the index, followed by
/// `NAME-VERSION.apk`.
pub fn package_path(
    alloc: Global,
    index: &[u8],
    name: &[u8],
    version: &[u8],
) -> Result<Vec<u8>, AllocError>
    ensures { IfOk result (λ path. path.items ≡ package_path index.now name.now version.now) }
{
    let mut path = Vec::from_slice(alloc, path_up_to_last_slash(index))?;
    path.extend_from_slice(name)?;
    path.extend_from_slice(b"-")?;
    path.extend_from_slice(version)?;
    path.extend_from_slice(b".apk")?;
    Ok(path)
}

/// The folder of a path: its bytes up to the last `/`, with this `/`; empty if there is none.
fn path_up_to_last_slash(path: &[u8]) -> &[u8]
    ensures { result.now ≡ path_up_to_last_slash path.now }
{
    // The number of bytes up to the last `/` so far.
    let mut end = 0;
    for (i, byte) in path.iter().enumerate() {
        if *byte == b'/' {
            end = i + 1;
        }
    }
    &path[..end]
}
