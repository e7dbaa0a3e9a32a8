//! This module makes the lists of names that must not repeat, each name with its position. These
//! are names of folders, files and packages, paths of files, and texts of a journal entry.
//! `repeated` searches these lists. The table of `docs/formats.md`, "Names that stand twice", has
//! the kinds of names.

ghost use Rattle.std.specs.Prelude.{◌≡◌, ◌+◌, ◌<◌, ◌^◌, ◌++◌, ◌∷◌, [], true, Some, map, length, IfOk};
ghost use Rattle.std.specs.Vec.{vec_len};
ghost use Rattle.adb_view.specs.Adb.{payload_of};
ghost use Rattle.adb_view.specs.Entries.{array_entries};
ghost use Rattle.adb_view.specs.Values.{is_sound, value_at, kind_at, text_in};
ghost use Rattle.adb_fields.specs.Fields.{are_all_sound};
ghost use Rattle.adb_fields.specs.Repeated.{NAME_INDEX, numbered_from, names_all_at_position, name_of, package_name, paths_of_package_files, paths_of_folder_files, names_with_list_positions};
ghost use Rattle.adb_fields.specs.Paths.{path_of};
ghost use Rattle.adb_fields.specs.NamedTexts.{joined_name_with_position, plains_of_array_words, name_with_position};
ghost use Rattle.adb_view.specs.declared.tables.Kind.TheVariants as Kinds;
ghost use Rattle.adb_view.specs.declared.tables.Which.TheVariants as Tables;

use crate::file_path::FilePath;
use crate::pairs::PathWithPosition;
use crate::reads::{field_word, objects_field, text_field, text_word};
use adb_view::field_indexes::{
    DIR_FILES_INDEX, DIR_NAME_INDEX, FILE_NAME_INDEX, INFO_NAME_INDEX, PACKAGE_INFO_INDEX,
    PACKAGE_PATHS_INDEX,
};
use adb_view::{Adb, Arr, Val, Which, entry_word};
use std::alloc::{AllocError, Global};

/// The index of the name in a folder and in a file: in both it is the first field.
const NAME_INDEX: usize = DIR_NAME_INDEX;

/// Adds `name` to the end of `names`, with the next position.
fn add<'a>(names: &mut Vec<PathWithPosition<'a>>, name: &'a [u8]) -> Result<(), AllocError>
    // The next position fits into 32 bits.
    requires { vec_len names.old + 1 < 2 ^ 32 }
    // On Ok, the name is added with the next position.
    ensures added { IfOk result (λ _. map joined_name_with_position names.new.items
        ≡ map joined_name_with_position names.old.items
        ++ (name_with_position name.now (vec_len names.old + 1) ∷ [])) }
    // On Ok, there is one more name.
    ensures len { IfOk result (λ _. vec_len names.new ≡ vec_len names.old + 1) }
{
    let position = names.len() as u32 + 1;
    let path = FilePath { folder: &[], name };
    names.push(PathWithPosition { path, position })?;
    Ok(())
}

/// The names of folders or files, with positions from 1 on. `objects` has the words of these
/// objects, whose first field is the name.
#[tactic(auto, using(crate::proofs::FieldReads::entry_sound))]
pub(crate) fn object_names<'a>(
    alloc: Global,
    adb: Adb<'a>,
    which: Which,
    objects: Arr<'a>,
) -> Result<Vec<PathWithPosition<'a>>, AllocError>
    // The words in `objects` have plain values: objects of the table `which`.
    requires sound { are_all_sound (payload_of adb) (Kinds.Obj which) (array_entries objects)
        ≡ true }
    // The first field of the table is a text, the name.
    requires kind { kind_at which NAME_INDEX ≡ Some Kinds.Text }
    // On Ok, these are the names, with positions from 1 on.
    ensures { IfOk result (λ names. map joined_name_with_position names.items
        ≡ numbered_from 1
        (map name_of (plains_of_array_words (payload_of adb.entry) (Kinds.Obj which)
        (array_entries objects.entry)))) }
{
    let mut names = Vec::new(alloc);
    for i in 0..objects.len() {
        add(
            &mut names,
            text_field(adb, which, entry_word(objects, i), NAME_INDEX),
        )?;
    }
    Ok(names)
}

/// The names of packages, each with the position of its package.
#[tactic(auto, using(crate::proofs::FieldReads::entry_sound))]
pub(crate) fn package_names<'a>(
    alloc: Global,
    adb: Adb<'a>,
    packages: Arr<'a>,
) -> Result<Vec<PathWithPosition<'a>>, AllocError>
    // The words in `packages` have plain values: packages.
    requires { are_all_sound (payload_of adb) (Kinds.Obj Tables.Package) (array_entries packages)
        ≡ true }
    // On Ok, these are the names, with positions from 1 on.
    ensures { IfOk result (λ names. map joined_name_with_position names.items
        ≡ numbered_from 1
        (map package_name (plains_of_array_words (payload_of adb.entry) (Kinds.Obj Tables.Package)
        (array_entries packages.entry)))) }
{
    let mut names = Vec::new(alloc);
    for i in 0..packages.len() {
        add(&mut names, package_name(adb, entry_word(packages, i)))?;
    }
    Ok(names)
}

/// The name of a package, which is in the package's information.
fn package_name<'a>(adb: Adb<'a>, pkg: Val) -> &'a [u8]
    // The word `pkg` has a plain value: a package.
    requires { is_sound (payload_of adb) (Kinds.Obj Tables.Package) pkg ≡ true }
    // The result is the name of this package.
    ensures { result.now
        ≡ package_name (value_at (payload_of adb.entry) (Kinds.Obj Tables.Package) pkg) }
{
    let info = field_word(adb, Which::Package, pkg, PACKAGE_INFO_INDEX);
    text_field(adb, Which::PkgInfo, info, INFO_NAME_INDEX)
}

/// Adds the texts of an array to the end of `names`, with the positions that follow. `texts` has
/// the words of the texts.
#[tactic(auto, using(crate::proofs::FieldReads::entry_sound))]
pub(crate) fn add_texts<'a>(
    names: &mut Vec<PathWithPosition<'a>>,
    adb: Adb<'a>,
    texts: Arr<'a>,
) -> Result<(), AllocError>
    // The words in `texts` have plain values: texts.
    requires sound { are_all_sound (payload_of adb) Kinds.Text (array_entries texts) ≡ true }
    // The positions of all these texts fit into 32 bits.
    requires few { vec_len names.old + length (array_entries texts) < 2 ^ 32 }
    // On Ok, the texts are added with the next positions.
    ensures added { IfOk result (λ _. map joined_name_with_position names.new.items
        ≡ map joined_name_with_position names.old.items
        ++ numbered_from (vec_len names.old + 1)
        (map text_in (plains_of_array_words (payload_of adb.entry) Kinds.Text
        (array_entries texts.entry)))) }
    // On Ok, there are as many more names as there are texts.
    ensures len { IfOk result (λ _. vec_len names.new
        ≡ vec_len names.old + length (array_entries texts.entry)) }
{
    for i in 0..texts.len() {
        add(names, text_word(adb, entry_word(texts, i)))?;
    }
    Ok(())
}

/// Adds the path of the file `name` in the folder `folder`, with the given position.
fn add_path<'a>(
    paths: &mut Vec<PathWithPosition<'a>>,
    folder: &'a [u8],
    name: &'a [u8],
    position: u32,
) -> Result<(), AllocError>
    // On Ok, the paths are added with this position.
    ensures { IfOk result (λ _. map joined_name_with_position paths.new.items
        ≡ map joined_name_with_position paths.old.items
        ++ (name_with_position (path_of folder.now name.now) position ∷ [])) }
{
    let path = FilePath { folder, name };
    paths.push(PathWithPosition { path, position })?;
    Ok(())
}

/// Adds the paths of all files of a folder, all with the given position.
#[tactic(auto, using(crate::proofs::FieldReads::entry_sound))]
fn add_paths_under<'a>(
    paths: &mut Vec<PathWithPosition<'a>>,
    adb: Adb<'a>,
    folder: Val,
    position: u32,
) -> Result<(), AllocError>
    // The word `folder` has a plain value: a folder.
    requires { is_sound (payload_of adb) (Kinds.Obj Tables.Dir) folder ≡ true }
    // On Ok, the paths are added with this position.
    ensures { IfOk result (λ _. map joined_name_with_position paths.new.items
        ≡ map joined_name_with_position paths.old.items
        ++ names_all_at_position position
        (paths_of_folder_files (value_at (payload_of adb.entry) (Kinds.Obj Tables.Dir) folder))) }
{
    let name = text_field(adb, Which::Dir, folder, DIR_NAME_INDEX);
    let files = objects_field(adb, Which::Dir, folder, DIR_FILES_INDEX, Which::File);
    for i in 0..files.len() {
        let file = text_field(adb, Which::File, entry_word(files, i), FILE_NAME_INDEX);
        add_path(paths, name, file, position)?;
    }
    Ok(())
}

/// Adds the paths of all files of a package, all with the given position.
#[tactic(auto, using(crate::proofs::FieldReads::entry_sound))]
fn add_paths<'a>(
    paths: &mut Vec<PathWithPosition<'a>>,
    adb: Adb<'a>,
    pkg: Val,
    position: u32,
) -> Result<(), AllocError>
    // The word `pkg` has a plain value: a package.
    requires { is_sound (payload_of adb) (Kinds.Obj Tables.Package) pkg ≡ true }
    // On Ok, the paths are added with this position.
    ensures { IfOk result (λ _. map joined_name_with_position paths.new.items
        ≡ map joined_name_with_position paths.old.items
        ++ names_all_at_position position
        (paths_of_package_files (value_at (payload_of adb.entry) (Kinds.Obj Tables.Package) pkg))) }
{
    let folders = objects_field(adb, Which::Package, pkg, PACKAGE_PATHS_INDEX, Which::Dir);
    for i in 0..folders.len() {
        add_paths_under(paths, adb, entry_word(folders, i), position)?;
    }
    Ok(())
}

/// The paths of all files of packages, each with the position of its package.
#[tactic(auto, using(crate::proofs::FieldReads::entry_sound))]
pub(crate) fn all_paths<'a>(
    alloc: Global,
    adb: Adb<'a>,
    packages: Arr<'a>,
) -> Result<Vec<PathWithPosition<'a>>, AllocError>
    // The words in `packages` have plain values: packages.
    requires { are_all_sound (payload_of adb) (Kinds.Obj Tables.Package) (array_entries packages)
        ≡ true }
    // On Ok, these are the paths, each with the position of its package.
    ensures { IfOk result (λ paths. map joined_name_with_position paths.items
        ≡ names_with_list_positions 1
        (map paths_of_package_files (plains_of_array_words (payload_of adb.entry)
        (Kinds.Obj Tables.Package)
        (array_entries packages.entry)))) }
{
    let mut paths = Vec::new(alloc);
    for i in 0..packages.len() {
        add_paths(&mut paths, adb, entry_word(packages, i), i as u32 + 1)?;
    }
    Ok(paths)
}
