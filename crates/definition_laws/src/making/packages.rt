//! The contents of a package that was made: laws over the definitions of `make_core`. The rules
//! are in `docs/commands.md`, "`mkpkg`", parts "Information", "Scripts" and "Files".
ghost use Rattle.make_core.specs.adb_fields.FirstPair.{IsIn};
ghost use Rattle.make_core.specs.adb_fields.Repeated.{folders_in};
ghost use Rattle.command_core.specs.Command.{CommandLine};
ghost use Rattle.command_core.specs.Files.{without_one_leading_dot_slash};
ghost use Rattle.command_core.specs.Values.{script_types};
ghost use Rattle.command_core.specs.declared.values.OptionValue.{OptionValue};
ghost use Rattle.command_core.specs.declared.values.TheConstants.{FILES, SCRIPT};
ghost use Rattle.make_core.specs.make_info.declared.field.Field.{Field};
ghost use Rattle.make_core.specs.make_info.Reads.{Reads};
ghost use Rattle.make_core.specs.package_files.Sources.{values_of_letter};
ghost use Rattle.definition_laws.specs.making.MadePackages.{HasJustFoldersAbove, HasInstalledSizeOfItsFiles, HasTriggersOfOptionsInOrder, IsEnterableWithReadableFiles, HasFoldersAndFilesInByteOrder, IsMadePackage, package_in_container};
ghost use Rattle.definition_laws.specs.making.SaidOfFields.{HasFieldValuesOfOptions};
ghost use Rattle.definition_laws.specs.making.ScriptFiles.{IsScriptOfOptionsOrNull, script_named};
ghost use Rattle.std.specs.Prelude.{◌≡◌, ◌∷◌, ℕ, All, List};

use dep_core::{read_texts_are_spelled, spelled_texts_are_read};
use make_core::{a_made_package_is_read_back, each_name_is_in_one_folder};

/// The folders of a package that was made are in byte order, each once, and so are the files of
/// each folder.
pub fn a_made_package_is_in_byte_order()
    ensures { (command : CommandLine) (names : List (List ℕ)) (read : Reads) (bytes : List ℕ)
        → IsMadePackage command names read bytes
        → HasFoldersAndFilesInByteOrder (package_in_container bytes) }
{
    // A law that the proof needs; it computes nothing.
    a_made_package_is_read_back();
}

/// The folders of a package that was made are exactly those above the path of a file, at any depth:
/// the root, and each folder that contains a file.
pub fn a_made_package_has_just_the_folders_above_its_paths()
    ensures { (command : CommandLine) (names : List (List ℕ)) (read : Reads) (bytes : List ℕ)
        (dir : OptionValue) (others : List OptionValue) → IsMadePackage command names read bytes
        → values_of_letter FILES command.values ≡ dir ∷ others
        → HasJustFoldersAbove (without_one_leading_dot_slash dir.text) names
        (package_in_container bytes) }
{
    // A law that the proof needs; it computes nothing.
    a_made_package_is_read_back();
    each_name_is_in_one_folder();
}

/// All may read each file of a package that was made, and enter each folder; both belong to root.
pub fn a_made_package_may_be_read_by_all()
    ensures { (command : CommandLine) (names : List (List ℕ)) (read : Reads) (bytes : List ℕ)
        → IsMadePackage command names read bytes
        → All IsEnterableWithReadableFiles (folders_in (package_in_container bytes)) }
{
    // A law that the proof needs; it computes nothing.
    a_made_package_is_read_back();
}

/// The triggers of a package that was made are the texts of `-t`, in the order given.
pub fn a_made_package_has_its_triggers_in_order()
    ensures { (command : CommandLine) (names : List (List ℕ)) (read : Reads) (bytes : List ℕ)
        → IsMadePackage command names read bytes
        → HasTriggersOfOptionsInOrder command.values (package_in_container bytes) }
{
    // A law that the proof needs; it computes nothing.
    a_made_package_is_read_back();
}

/// A package that was made has exactly the scripts that options give as TYPE:FILE, with the bytes
/// of the files.
pub fn a_made_package_has_its_scripts()
    ensures { (command : CommandLine) (names : List (List ℕ)) (read : Reads) (bytes : List ℕ)
        (type : List ℕ) → IsMadePackage command names read bytes → IsIn type script_types
        → IsScriptOfOptionsOrNull read (values_of_letter SCRIPT command.values) type
        (script_named type (package_in_container bytes)) }
{
    // A law that the proof needs; it computes nothing.
    a_made_package_is_read_back();
}

/// Each field of a package that was made has what the options `-I` say: a list has all values, in
/// the order given, another field the one value, if there is one.
pub fn a_made_package_has_the_values_of_its_options()
    ensures { (command : CommandLine) (names : List (List ℕ)) (read : Reads) (bytes : List ℕ)
        (f : Field) → IsMadePackage command names read bytes
        → HasFieldValuesOfOptions f command.values (package_in_container bytes) }
{
    // A law that the proof needs; it computes nothing.
    a_made_package_is_read_back();
    read_texts_are_spelled();
    spelled_texts_are_read();
}

/// The installed size of a package is the sum of its files' sizes.
pub fn a_made_package_has_the_size_of_its_files()
    ensures { (command : CommandLine) (names : List (List ℕ)) (read : Reads) (bytes : List ℕ)
        → IsMadePackage command names read bytes
        → HasInstalledSizeOfItsFiles (package_in_container bytes) }
{
    // A law that the proof needs; it computes nothing.
    a_made_package_is_read_back();
}
