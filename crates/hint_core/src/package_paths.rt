//! The path of a file of a package, by the positions of its folder and of itself in the folder. The
//! positions are described in `docs/formats.md`, "The other blocks".
ghost use Rattle.std.specs.Prelude.{◌≡◌, IfOk};
ghost use Rattle.std.specs.Option.{option_map};
ghost use Rattle.base_core.specs.Read.{bytes_in};
ghost use Rattle.hint_core.specs.Contents.{item_at_position, path_at};
ghost use Rattle.pkg_core.specs.adb_schema.Views.{dir_value, file_value, package_value};
ghost use Rattle.pkg_core.specs.adb_schema.adb_fields.ListValue.{list_value};
ghost use Rattle.pkg_core.specs.adb_schema.adb_fields.Paths.{path_of};

use pkg_core::{DirInfo, FileInfo, List, PackageView};
use std::alloc::{AllocError, Global};

/// The path of a file of a package, by the position of its folder in the package and that of the
/// file in this folder, both counted from 1. None if there is none.
pub(crate) fn path_at(
    alloc: Global,
    view: &PackageView<'_>,
    position: (u32, u32),
) -> Result<Option<Vec<u8>>, AllocError>
    ensures { IfOk result (λ path.
        bytes_in path ≡ path_at (package_value view.now) position) }
{
    let Some(folder) = folder_at(view.paths(), position.0) else {
        return Ok(None);
    };
    match file_at(folder.files(), position.1) {
        Some(file) => Ok(Some(path_of(alloc, folder.name(), file.name())?)),
        None => Ok(None),
    }
}

// The folder at a position, counted from 1, if there is one.
fn folder_at<'a>(folders: List<'a, DirInfo<'a>>, position: u32) -> Option<DirInfo<'a>>
    ensures { option_map dir_value result ≡ item_at_position (list_value folders.entry) position }
{
    let position = position as usize;
    if position < 1 || position > folders.len() {
        return None;
    }
    Some(folders.get(position))
}

// The file at a position, counted from 1, if there is one.
fn file_at<'a>(files: List<'a, FileInfo<'a>>, position: u32) -> Option<FileInfo<'a>>
    ensures { option_map file_value result ≡ item_at_position (list_value files.entry) position }
{
    let position = position as usize;
    if position < 1 || position > files.len() {
        return None;
    }
    Some(files.get(position))
}

// The path of a file in a package: its folder and its name, or the name alone in the folder without
// a name.
fn path_of(alloc: Global, folder: &[u8], name: &[u8]) -> Result<Vec<u8>, AllocError>
    ensures { IfOk result (λ path. path.items ≡ path_of folder.now name.now) }
{
    let mut path = Vec::new(alloc);
    if !folder.is_empty() {
        path.extend_from_slice(folder)?;
        path.push(b'/')?;
    }
    path.extend_from_slice(name)?;
    Ok(path)
}
