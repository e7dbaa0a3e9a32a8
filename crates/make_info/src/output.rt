//! The name under which a container is written (apk(8)): the file of `-o`, or NAME-VERSION.apk.
//! The rules are in `docs/commands.md`, "`mkpkg`" and "`mkndx PACKAGE..`", and in "Words", the
//! row of `-o`.
ghost use Rattle.make_info.specs.FieldTexts.{first_text_for, is_output_default_and_too_long, package_name_in, named_output, default_output, option_text_for_field, package_version_in};
ghost use Rattle.make_info.specs.Information.{information};
ghost use Rattle.make_info.specs.Output.{is_mkpkg, output_name, named_or_default_package_output};
ghost use Rattle.std.specs.Option.{option_map};
ghost use Rattle.std.specs.Prelude.{is_some, ◌≡◌, ◌||◌, IfOk, is_ok, ◌≤◌, List, ℕ, Some, IsSome, IsTrue, length};
ghost use Rattle.command_core.specs.Command.{CommandLine};
ghost use Rattle.command_core.specs.Files.{most_output_path_bytes};
ghost use Rattle.command_core.specs.Sound.{IsValidCommand};
ghost use Rattle.command_core.specs.declared.command.Applet.TheVariants.{Mkndx, Mkpkg};

use crate::fault::MakeFault;
use crate::field::Field;
use crate::information::{FieldText, read_information};
use base_core::Name;
use command_core::{
    Applet, Command, INFO, LONGEST_OUTPUT, OUTPUT, OptionValue, Values,
    a_command_has_what_its_applet_may_have, values_are_of_their_kind,
};
use dep_core::is_package_name;
use root_names::package_path;
use std::alloc::{AllocError, Global};
use version_core::{Version, versions_have_version_bytes};

/// NAME-VERSION.apk, the default name of the output, if `-I` gives a valid name and a valid
/// version.
pub(crate) fn default_output(alloc: Global, values: &Values) -> Result<Option<Vec<u8>>, AllocError>
    ensures { IfOk result (λ file. option_map (λ file. file.items) file
        ≡ default_output values.now) }
{
    let Some(name) = package_name_in(values) else {
        return Ok(None);
    };
    let Some(version) = package_version_in(values) else {
        return Ok(None);
    };
    // The folder before the file's name is empty.
    let file = package_path(alloc, b"", name, version)?;
    Ok(Some(file))
}

/// Whether no output is named, and NAME-VERSION.apk is too long.
pub(crate) fn is_output_default_and_too_long(values: &Values) -> bool
    ensures { result ≡ is_output_default_and_too_long values.now }
{
    if is_output_named(values) {
        return false;
    }
    let Some(name) = package_name_in(values) else {
        return false;
    };
    let Some(version) = package_version_in(values) else {
        return false;
    };
    // The length of NAME-VERSION.apk.
    name.len() + version.len() + b"-.apk".len() > LONGEST_OUTPUT
}

// Whether `-o` names an output.
fn is_output_named(values: &Values) -> bool
    ensures { result ≡ is_some (named_output values.now) }
{
    values.first(OUTPUT).is_some()
}

// The package's name: the first value of `-I` for the name, if it is valid.
fn package_name_in(values: &Values) -> Option<&[u8]>
    ensures { option_map (λ name. name.now) result ≡ package_name_in values.entry.now }
{
    let name = first_text_for(values, Field::Name)?;
    if !is_package_name(name) {
        return None;
    }
    Some(name)
}

// The package's version: the first value of `-I` for the version, if it is valid.
fn package_version_in(values: &Values) -> Option<&[u8]>
    ensures { option_map (λ version. version.now) result ≡ package_version_in values.entry.now }
{
    let version = first_text_for(values, Field::Version)?;
    if Version::read(version).is_none() {
        return None;
    }
    Some(version)
}

// The text of the first value of `-I` for a field, valid or not.
fn first_text_for(values: &Values, field: Field) -> Option<&[u8]>
    ensures { option_map (λ text. text.now) result ≡ first_text_for field values.entry.now }
{
    for i in 0..values.len() {
        let found = option_text_for_field(values.get(i), field);
        if found.is_some() {
            return found;
        }
    }
    None
}

// The text after FIELD and the colon in the value of an option, if the option is `-I` and the value
// is for this field.
fn option_text_for_field(value: &OptionValue, field: Field) -> Option<&[u8]>
    ensures { option_map (λ text. text.now) result ≡ option_text_for_field field value.entry.now }
{
    if value.letter != INFO {
        return None;
    }
    let given = FieldText::of(value.text.as_bytes())?;
    if given.field != field {
        return None;
    }
    Some(given.value)
}

/// The name under which the container of `mkpkg` or `mkndx` is written (apk(8)): the file of `-o`,
/// or for `mkpkg` by default NAME-VERSION.apk. None is returned exactly if the package information
/// of `mkpkg` is not allowed.
pub fn output_name(alloc: Global, command: &Command) -> Result<Option<Name>, AllocError>
    ensures { IfOk result (λ name. name ≡ output_name command.now) }
{
    if is_mkpkg(command.applet()) {
        return named_or_default_package_output(alloc, command);
    }
    named_output(alloc, command)
}

// The name of the file that `-o` gives, if it is given.
fn named_output(alloc: Global, command: &Command) -> Result<Option<Name>, AllocError>
    ensures { IfOk result (λ name. name ≡ named_output command.now.values) }
{
    // A law that the proof needs; it computes nothing.
    values_are_of_their_kind();
    match command.values().first_file(OUTPUT) {
        Some(file) => {
            let name = file.copy(alloc)?;
            Ok(Some(name))
        }
        None => Ok(None),
    }
}

// Whether the applet is `mkpkg`, whose output may be named after the package.
fn is_mkpkg(applet: Applet) -> bool
    ensures { result ≡ is_mkpkg applet }
{
    applet == Applet::Mkpkg
}

// The name of the output of `mkpkg`, if its information is allowed.
fn named_or_default_package_output(
    alloc: Global,
    command: &Command,
) -> Result<Option<Name>, AllocError>
    ensures { IfOk result (λ name. name ≡ named_or_default_package_output command.now) }
{
    if !is_allowed(alloc, command)? {
        return Ok(None);
    }
    if let Some(name) = named_output(alloc, command)? {
        return Ok(Some(name));
    }
    // A law that the proof needs; it computes nothing.
    versions_have_version_bytes();
    match default_output(alloc, command.values())? {
        Some(file) => Name::read(alloc, &file),
        None => Ok(None),
    }
}

// Whether the information of `mkpkg` is allowed.
fn is_allowed(alloc: Global, command: &Command) -> Result<bool, AllocError>
    ensures { IfOk result (λ allowed. allowed ≡ is_ok (information command.now)) }
{
    match read_information(alloc, command) {
        Ok(_) => Ok(true),
        // Out of memory says nothing about the information.
        Err(MakeFault::Memory) => Err(AllocError),
        Err(_) => Ok(false),
    }
}

/// An output's name is short enough for its scratch name, which has eight more bytes.
pub fn an_output_is_short()
    ensures { (command : CommandLine) (name : List ℕ) → IsValidCommand command
        → output_name command ≡ Some name → length name ≤ most_output_path_bytes }
{
    // A law that the proof needs; it computes nothing.
    values_are_of_their_kind();
}

/// If the information of a package is allowed, there is an output.
pub fn a_package_with_information_has_an_output()
    ensures { (command : CommandLine) → command.applet ≡ Mkpkg
        → IsTrue (is_ok (information command)) → IsSome (output_name command) }
{}

/// `mkndx` requires `-o`, so an index has an output.
pub fn an_index_has_an_output()
    ensures { (command : CommandLine) → IsValidCommand command → command.applet ≡ Mkndx
        → IsSome (output_name command) }
{
    // A law that the proof needs; it computes nothing.
    a_command_has_what_its_applet_may_have();
}
