//! Whether the folders of a package list a file with some path, without building the path of each
//! file. `Db::owner_of` uses this.
//! What a path is, is in `docs/formats.md`, "The texts", fields 401 and 501: the folder's name,
//! which is empty for the root, `/`, and the file's name. `info` asks who owns a path
//! (`docs/commands.md`, "`info`").
ghost use Rattle.pkg_core.specs.adb_fields.ListValue.{list_value};
ghost use Rattle.pkg_core.specs.adb_fields.Paths.{path_of};
ghost use Rattle.pkg_core.specs.adb_fields.Repeated.{list_of, name_of, paths_of_folder_files};
ghost use Rattle.pkg_core.specs.adb_schema.Views.{dir_value};
ghost use Rattle.adb_view.specs.Values.{count_of, entries_in, entry_at_index};
ghost use Rattle.std.specs.List.{flat_map, list_any};
ghost use Rattle.std.specs.Prelude.{◌≡◌, ◌<◌, bytes_eq};

use pkg_core::{DirInfo, FileInfo, List};

/// Whether one of some folders lists a file with this path.
pub(crate) fn is_path_listed<'a>(folders: &List<'a, DirInfo<'a>>, path: &[u8]) -> bool
    // The result says whether the path is that of a file of one of the folders.
    ensures { result ≡ list_any (bytes_eq path.now)
        (flat_map paths_of_folder_files (list_of (entries_in (list_value folders.now)))) }
{
    for i in 0..folders.len() {
        if is_path_in_folder(folders, i, path) {
            return true;
        }
    }
    false
}

/// Whether the folder at a place, counted from 0, lists a file with this path.
fn is_path_in_folder<'a>(folders: &List<'a, DirInfo<'a>>, i: usize, path: &[u8]) -> bool
    // The index is that of an entry of the list.
    requires { i < count_of (entries_in (list_value folders.now)) }
    // The result says whether the path is that of a file of this folder.
    ensures { result ≡ list_any (bytes_eq path.now)
        (paths_of_folder_files (entry_at_index (list_value folders.now) i)) }
{
    // By the contract this never happens. `len` says that a list has less than 2^32 entries, so
    // `i + 1` does not overflow.
    if i >= folders.len() {
        unreachable!();
    }
    // `get` counts from 1.
    let folder = folders.get(i + 1);
    is_path_of_any(&folder.files(), folder.name(), path)
}

/// Whether one of the files of the folder with the path `folder` has this path.
fn is_path_of_any<'a>(files: &List<'a, FileInfo<'a>>, folder: &[u8], path: &[u8]) -> bool
    // The result says whether the path is that of one of these files.
    ensures { result ≡ list_any (λ file. bytes_eq path.now (path_of folder.now (name_of file)))
        (list_of (entries_in (list_value files.now))) }
{
    for i in 0..files.len() {
        if is_path_of_file(files, i, folder, path) {
            return true;
        }
    }
    false
}

/// Whether the file at a place of the folder with the path `folder`, counted from 0, has this path.
fn is_path_of_file<'a>(files: &List<'a, FileInfo<'a>>, i: usize, folder: &[u8], path: &[u8]) -> bool
    // The index is that of an entry of the list.
    requires { i < count_of (entries_in (list_value files.now)) }
    // The result says whether the path is that of this file.
    ensures { result ≡ bytes_eq path.now
        (path_of folder.now (name_of (entry_at_index (list_value files.now) i))) }
{
    // By the contract this never happens. `len` says that a list has less than 2^32 entries, so
    // `i + 1` does not overflow.
    if i >= files.len() {
        unreachable!();
    }
    // `get` counts from 1.
    is_path(path, folder, files.get(i + 1).name())
}

/// Whether a path is that of the file with this name in this folder: the two joined by `/`, or the
/// name alone if the folder is the root.
fn is_path(path: &[u8], folder: &[u8], name: &[u8]) -> bool
    ensures { result ≡ bytes_eq path.now (path_of folder.now name.now) }
{
    // A path in the root is the name alone.
    if folder.is_empty() {
        return path == name;
    }
    // Otherwise the path is the folder, a slash and the name.
    let Some(below) = path.strip_prefix(folder) else {
        return false;
    };
    let Some(last) = below.strip_prefix(&[b'/']) else {
        return false;
    };
    last == name
}
