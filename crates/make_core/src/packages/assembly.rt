//! The container of a package: its payload, followed by the contents blocks.
//! The rules are in `docs/formats.md`, "Container" and "The other blocks"; the installed size is
//! defined in `docs/commands.md`, "`mkpkg`"; that the contents are in memory only once, in
//! `docs/DECISIONS.md`, "Making".
ghost use Rattle.command_core.specs.declared.values.TheConstants.{TRIGGER};
ghost use Rattle.std.specs.Prelude.{ℕ, ◌≡◌, ◌≤◌, ◌<◌, ◌^◌, ◌++◌, Ok, List, length, map, IfOk, IfErr};
ghost use Rattle.package_files.specs.adb_schema.declared.read.TheConstants.{PACKAGE_WORD};
ghost use Rattle.package_files.specs.adb_write.Canonical.{MOST_BYTES, payload_or_counts_at_overflow};
ghost use Rattle.package_files.specs.adb_write.File.{file_of};
ghost use Rattle.package_files.specs.make_info.Faults.{IsOverflowFault};
ghost use Rattle.package_files.specs.make_info.Information.{information_value_with_installed_size, replaces_priority};
ghost use Rattle.make_core.specs.Answers.{IsBytes, IsNotDisk};
ghost use Rattle.make_core.specs.Making.{package_of_parts};
ghost use Rattle.package_files.specs.adb_sound.Contents.{total_size_of_file_contents};
ghost use Rattle.package_files.specs.Package.{SourceFolder, contents_of_folders, installed_size, package_with};
ghost use Rattle.package_files.specs.Packed.{IsPacking, files_size, packed_folder, installed_size_of_folders};
ghost use Rattle.package_files.specs.Runs.{AgreesOrIsFault};
ghost use Rattle.make_core.specs.Scripts.{scripts_view};
ghost use Rattle.package_files.specs.Sources.{values_of_letter, texts_of};

use crate::packages::writing::{Script, write_package};
use command_core::{Command, Values};
use package_files::{
    Draft, File, Folder, Information, MakeFault, PACKAGE_WORD, Packing, file_of, put_in_front,
};
use std::alloc::{AllocError, Global};

/// The bytes of the package that a command describes, with this information (`about`), these
/// folders and files (`packing`) and these scripts.
pub(crate) fn package(
    alloc: Global,
    command: &Command,
    about: &Information<'_>,
    packing: Packing<'_>,
    scripts: &[Script<'_>],
) -> Result<Vec<u8>, MakeFault>
    // The sum of the file sizes is at most the length of the blocks, since the bytes of each
    // regular file are in them.
    requires { installed_size_of_folders packing.folders.items ≤ length packing.blocks.items }
    // The result is the package of these parts, or its refusal, unless out of memory.
    ensures made { (sources : List SourceFolder) → IsPacking packing.entry sources
        → AgreesOrIsFault IsBytes result (package_of_parts command.now
        (scripts_view scripts.now) about.now sources) }
    // The result is no I/O error: no call on a tree is made here.
    ensures disk { IsNotDisk result }
{
    // The bytes of all files are in the blocks, so the sum of their sizes fits into 64 bits.
    let size = installed_size(&packing.folders);
    let payload = payload(
        alloc,
        command.values(),
        about,
        &packing.folders,
        scripts,
        size,
    )?;
    let file = package_file(alloc, &payload, packing.blocks)?;
    Ok(file)
}

/// The installed size of a package: the sum of the sizes of the files of all folders.
fn installed_size(folders: &[Folder<'_>]) -> u64
    // The installed size fits into 64 bits.
    requires { installed_size_of_folders folders.now < 2 ^ 64 }
    ensures { result ≡ installed_size_of_folders folders.now }
{
    let mut size = 0;
    for folder in folders {
        size += size_in(&folder.files);
    }
    size
}

/// The sum of the sizes of the files of a folder.
fn size_in(files: &[File<'_>]) -> u64
    // The size of the files fits into 64 bits.
    requires { files_size files.now < 2 ^ 64 }
    ensures { result ≡ files_size files.now }
{
    let mut size = 0;
    for file in files {
        size += file.kind.size();
    }
    size
}

/// The payload of a package with this information, these folders and scripts, with the triggers and
/// the priority of the options, and with the installed size `size`.
fn payload(
    alloc: Global,
    values: &Values,
    about: &Information<'_>,
    folders: &[Folder<'_>],
    scripts: &[Script<'_>],
    size: u64,
) -> Result<Vec<u8>, MakeFault>
    // On Ok, the payload is that of the package with these parts.
    ensures made { IfOk result (λ payload. payload_or_counts_at_overflow
        (package_with (information_value_with_installed_size about.now size)
        (map packed_folder folders.now)
        (scripts_view scripts.now) (texts_of (values_of_letter TRIGGER values.now))
        (replaces_priority about.now)) ≡ Ok payload.items) }
    // The payload is not longer than a payload may be.
    ensures small { IfOk result (λ payload. length payload.items ≤ MOST_BYTES) }
    // An error is the limit of a payload that is exceeded, or out of memory.
    ensures err { IfErr result (λ fault. IsOverflowFault fault
        (payload_or_counts_at_overflow (package_with
        (information_value_with_installed_size about.now size)
        (map packed_folder folders.now) (scripts_view scripts.now)
        (texts_of (values_of_letter TRIGGER values.now)) (replaces_priority about.now)))) }
{
    let mut draft = Draft::new(alloc);
    write_package(&mut draft, values, about, folders, scripts, size)?;
    Ok(draft.finish()?)
}

/// The bytes of the package with this payload and these blocks of contents. The blocks are in
/// memory only once.
fn package_file(alloc: Global, payload: &[u8], mut blocks: Vec<u8>) -> Result<Vec<u8>, AllocError>
    // The payload is not longer than a payload may be.
    requires { length payload.now ≤ MOST_BYTES }
    ensures { IfOk result (λ bytes. bytes.items
        ≡ file_of PACKAGE_WORD payload.now ++ blocks.items) }
{
    // The header of the file, and the block with the payload.
    let front = file_of(alloc, PACKAGE_WORD, payload)?;
    put_in_front(&mut blocks, &front)?;
    Ok(blocks)
}

/// A law: the installed size of a package is the sum of the lengths of its contents. `first` is the
/// position of the first folder.
pub fn the_installed_size_is_that_of_the_contents()
    ensures { (first : ℕ) (folders : List SourceFolder)
        → installed_size folders ≡ total_size_of_file_contents (contents_of_folders first folders) }
{}
