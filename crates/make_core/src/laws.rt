//! Laws about the packages and indexes that are made: they pass all tests of a container
//! (apk-v3(5)), and reading them gives the values that the command describes. The rules are in
//! `docs/commands.md`, "`mkpkg`" and "`mkndx PACKAGE..`", and in `docs/formats.md`, "Tests of a
//! container".
ghost use Rattle.pkg_core.specs.adb_schema.Soundness.{payload_in, root_value_of_payload};
ghost use Rattle.adb_view.specs.declared.tables.Which.TheVariants.{Index, Package};
ghost use Rattle.command_core.specs.declared.values.TheConstants.{FILES, SCRIPT};
ghost use Rattle.make_core.specs.Files.{EachOperandReadFindsNoFileOrFileBytes};
ghost use Rattle.make_core.specs.Index.{made_index};
ghost use Rattle.make_info.specs.Reads.{Reads};
ghost use Rattle.make_core.specs.Making.{made_package};
ghost use Rattle.package_files.specs.Sources.{AreSortedAndEachBelowFirstFolder, values_of_letter};
ghost use Rattle.make_core.specs.ReadBack.{index_value_of_command, package_with_contents_of_command};
ghost use Rattle.pkg_core.specs.Whole.{container_fault, package_with_contents};
ghost use Rattle.std.specs.Prelude.{◌≡◌, ◌<◌, ◌^◌, ◌∷◌, ◌⊎◌, ℕ, List, length, None, Ok, Err};
ghost use Rattle.base_core.specs.Files.{Files};
ghost use Rattle.base_core.specs.Listed.{AreSortedAndEachBelowFolder};
ghost use Rattle.command_core.specs.Command.{CommandLine};
ghost use Rattle.command_core.specs.Files.{without_one_leading_dot_slash};
ghost use Rattle.command_core.specs.declared.values.OptionValue.{OptionValue};
ghost use Rattle.make_core.specs.FilesBelow.{HasJustNamedFilesBelowFolder};
ghost use Rattle.make_core.specs.IndexOrder.{HasSortedEntriesOfOperands};
ghost use Rattle.make_core.specs.Missing.{IsPlaceOfFolderWithMissingFile, IsPlaceOfScriptOptionWithoutFile};
ghost use Rattle.make_info.specs.declared.fault.MakeFault.TheVariants.{FileMissing};

use crate::indexes::an_index_is_in_order;
use crate::packages::{each_name_is_in_one_folder, the_installed_size_is_that_of_the_contents};
use adb_copy::{
    a_value_overflows_exactly_past_a_limit, the_first_pair_in_one_of_several_lists_is_reported,
};
use adb_view::{values_are_normal, values_have_their_shape, values_of_few_visits_have_no_fault};
use dep_core::{read_texts_are_spelled, values_are_read_back};
use package_files::{
    a_container_of_a_good_value_is_sound, a_package_of_a_good_value_and_its_contents_is_sound,
    contents_are_in_their_container, what_a_container_is_made_of_is_read_back,
};

/// An index that `mkndx` makes is sound, whatever packages it is made from: files of bytes, fewer
/// than 2^64 each.
pub fn a_made_index_is_sound()
    ensures { (command : CommandLine) (read : Reads) (bytes : List ℕ)
        → EachOperandReadFindsNoFileOrFileBytes read 0 command.operands → made_index command read
        ≡ Ok bytes
        → container_fault bytes ≡ None }
{
    // Laws that the proof needs; they compute nothing.
    a_container_of_a_good_value_is_sound();
    a_value_overflows_exactly_past_a_limit();
    values_are_normal();
    values_have_their_shape();
    values_of_few_visits_have_no_fault();
}

/// A package that `mkpkg` makes is sound, whatever its files and scripts contain, if it has fewer
/// than 2^64 bytes and is made from names below its folder, in byte order and each once.
pub fn a_made_package_is_sound()
    ensures { (command : CommandLine) (names : List (List ℕ)) (read : Reads) (bytes : List ℕ)
        → AreSortedAndEachBelowFirstFolder (values_of_letter FILES command.values) names
        → made_package command names read ≡ Ok bytes → length bytes < 2 ^ 64
        → container_fault bytes ≡ None }
{
    // Laws that the proof needs; they compute nothing.
    a_package_of_a_good_value_and_its_contents_is_sound();
    contents_are_in_their_container();
    the_installed_size_is_that_of_the_contents();
    a_value_overflows_exactly_past_a_limit();
    read_texts_are_spelled();
    values_are_read_back();
    the_first_pair_in_one_of_several_lists_is_reported();
}

/// The value that is read from an index that `mkndx` makes is the one that the command describes:
/// its description, and the entries of the named packages, in order.
pub fn a_made_index_is_read_back()
    ensures { (command : CommandLine) (read : Reads) (bytes : List ℕ)
        → EachOperandReadFindsNoFileOrFileBytes read 0 command.operands → made_index command read
        ≡ Ok bytes
        → index_value_of_command command read
        ≡ Ok (root_value_of_payload Index (payload_in bytes)) }
{
    // Laws that the proof needs; they compute nothing.
    what_a_container_is_made_of_is_read_back();
    a_value_overflows_exactly_past_a_limit();
    values_are_normal();
    values_have_their_shape();
    values_of_few_visits_have_no_fault();
}

/// The value and the contents of files that are read from a package that `mkpkg` makes are those
/// that the command describes, if the package has fewer than 2^64 bytes.
pub fn a_made_package_is_read_back()
    ensures { (command : CommandLine) (names : List (List ℕ)) (read : Reads) (bytes : List ℕ)
        → AreSortedAndEachBelowFirstFolder (values_of_letter FILES command.values) names
        → made_package command names read ≡ Ok bytes → length bytes < 2 ^ 64
        → package_with_contents_of_command command names read ≡ Ok (package_with_contents bytes) }
{
    // Laws that the proof needs; they compute nothing.
    what_a_container_is_made_of_is_read_back();
    contents_are_in_their_container();
    the_installed_size_is_that_of_the_contents();
    a_value_overflows_exactly_past_a_limit();
    read_texts_are_spelled();
    values_are_read_back();
    the_first_pair_in_one_of_several_lists_is_reported();
}

/// An index that `mkndx` makes has the entries of exactly the packages that its operands name, in
/// order; each package passes all its tests.
pub fn a_made_index_has_its_packages_in_order()
    ensures { (command : CommandLine) (read : Reads) (bytes : List ℕ)
        → EachOperandReadFindsNoFileOrFileBytes read 0 command.operands → made_index command read
        ≡ Ok bytes
        → HasSortedEntriesOfOperands read command.operands (root_value_of_payload Index
        (payload_in bytes)) }
{
    // Laws that the proof needs; they compute nothing.
    an_index_is_in_order();
    what_a_container_is_made_of_is_read_back();
    a_value_overflows_exactly_past_a_limit();
    values_are_normal();
    values_have_their_shape();
    values_of_few_visits_have_no_fault();
}

/// A package that `mkpkg` makes of a tree has exactly the files below the given folder, each once
/// and under its path, if the package has fewer than 2^64 bytes.
pub fn a_made_package_has_the_files_below_its_folder()
    ensures { (command : CommandLine) (names : List (List ℕ)) (files : Files) (bytes : List ℕ)
        (folder : OptionValue) (others : List OptionValue)
        → values_of_letter FILES command.values ≡ folder ∷ others
        → AreSortedAndEachBelowFolder (without_one_leading_dot_slash folder.text) names
        → made_package command names (λ n name. files name) ≡ Ok bytes → length bytes < 2 ^ 64
        → HasJustNamedFilesBelowFolder files (without_one_leading_dot_slash folder.text) names
        (root_value_of_payload Package (payload_in bytes)) }
{
    // Laws that the proof needs; they compute nothing.
    each_name_is_in_one_folder();
    what_a_container_is_made_of_is_read_back();
    contents_are_in_their_container();
    the_installed_size_is_that_of_the_contents();
    a_value_overflows_exactly_past_a_limit();
    read_texts_are_spelled();
    values_are_read_back();
    the_first_pair_in_one_of_several_lists_is_reported();
}

/// A missing file is reported at the place of the option that gives it. This is a `-s` whose file
/// is absent, or the first `-F`, if a file listed below its folder is absent.
pub fn a_missing_file_is_reported_at_its_option()
    ensures { (command : CommandLine) (names : List (List ℕ)) (read : Reads) (place : ℕ)
        → made_package command names read ≡ Err (FileMissing place)
        → IsPlaceOfScriptOptionWithoutFile read (values_of_letter SCRIPT command.values) place
        ⊎ IsPlaceOfFolderWithMissingFile read (values_of_letter FILES command.values) names place }
{}
