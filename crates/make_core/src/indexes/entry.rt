//! An entry of an index: the tests of its package, and its order among the others.
//! The rules are in `docs/commands.md`, "`mkndx PACKAGE..`" (the order of packages, and that each
//! must pass all tests of `verify`), and "`verify FILE..`" there.
ghost use Rattle.pkg_core.specs.adb_schema.Soundness.{container_fault_except_contents, payload_in, root_value_of_payload};
ghost use Rattle.adb_copy.specs.adb_values.Drafts.{draft_with};
ghost use Rattle.base_core.specs.declared.cause.Cause.{Cause};
ghost use Rattle.make_core.specs.Entries.{index_entry_of_package_file};
ghost use Rattle.make_core.specs.EntryOrder.{index_entry_cmp};
ghost use Rattle.make_core.specs.Index.{found_entry};
ghost use Rattle.make_core.specs.Kept.{entry_of_source, HoldsEntry, IsEntryWithKeys, AgreesUnlessMemory, IsRefusedAt};
ghost use Rattle.pkg_core.specs.Contents.{fault_of_files_read};
ghost use Rattle.pkg_core.specs.Opened.{opened_files, opened_payload, opened_value};
ghost use Rattle.pkg_core.specs.Whole.{package_fault};
ghost use Rattle.pkg_core.specs.Refusals.{IsFaultOf};
ghost use Rattle.std.specs.Prelude.{◌≡◌, Some, None, IfOk, IfErr, IfSome, IsTrue, OnOk, Option};
ghost use Rattle.std.specs.Result.{result_err};
ghost use Rattle.version_core.specs.Order.{is_version, version_cmp};
ghost use Rattle.adb_view.specs.declared.tables.Which.TheVariants as Tables;

use crate::indexes::source::{EntryPayload, EntrySource, PackageFile, entry_payload};
use adb_copy::{Draft, a_canonical_payload_is_read_back, a_value_overflows_exactly_past_a_limit};
use adb_view::{values_are_normal, values_have_their_shape};
use base_core::Cause;
use make_info::MakeFault;
use pkg_core::{
    Package, PackageFault, a_package_is_tested_by_its_values_and_then_its_files,
    sound_containers_hold_sound_values,
};
use std::alloc::{AllocError, Global};
use std::cmp::Ordering;
use version_core::Version;

/// The entry of a package in an index. Contracts see the plain value, by `entry_view` of `specs/`.
#[derive(Drop)]
pub(crate) struct Entry {
    /// The name of the package.
    name: Vec<u8>,
    /// The text of the package's version.
    version: Vec<u8>,
    /// The id of the package: the SHA-256 of its payload.
    id: [u8; 32],
    /// The source from which the entry is written.
    source: EntrySource,
    // Name, version and id are those of the entry, and the version is valid.
    ghost keyed: { IsEntryWithKeys name.items version.items id (entry_of_source source) },
}

impl Entry {
    ghost use Rattle.make_core.specs.Views.{entry_view};
    ghost use Rattle.base_core.specs.Files.{AreFileBytes};

    /// The entry of the package in this file, which the operand at this place names. The bytes of
    /// the file are dropped, unless the entry alone exceeds a limit of the writer.
    ///
    /// # Errors
    ///
    /// `FileBad` with the cause of the first test that fails, or `Memory`.
    pub(crate) fn of(alloc: Global, place: u32, file: Vec<u8>) -> Result<Entry, MakeFault>
        // The result is the entry of a package with these bytes, or its refusal, unless out of
        // memory.
        ensures made { AgreesUnlessMemory entry_view result (found_entry place (Some file.items)) }
        // The file has bytes that a file may have.
        ensures bytes { AreFileBytes file.items }
    {
        let parts = read_parts(alloc, place, &file)?;
        Ok(Entry {
            name: parts.name,
            version: parts.version,
            id: parts.id,
            source: match parts.payload {
                Some(payload) => EntrySource::Payload(EntryPayload { payload }),
                None => EntrySource::File(PackageFile { file }),
            },
        })
    }

    /// The order of two entries: by name, then by version, then by the version's text, then by id.
    pub(crate) fn compare(&self, other: &Entry) -> Ordering
        ensures { result ≡ index_entry_cmp (entry_view self.now) (entry_view other.now) }
    {
        let order = self.name.cmp(&other.name);
        if order.is_ne() {
            return order;
        }
        let order = compare_versions(&self.version, &other.version);
        if order.is_ne() {
            return order;
        }
        let order = self.version.cmp(&other.version);
        if order.is_ne() {
            return order;
        }
        self.id.cmp(&other.id)
    }

    /// Writes the entry into the draft of an index.
    pub(crate) fn write(&self, alloc: Global, draft: &mut Draft) -> Result<(), AllocError>
        ensures { OnOk result (draft.new ≡ draft_with (entry_view self.now) draft.old) }
    {
        self.source.write(alloc, draft)
    }
}

/// The order of two versions, given as texts.
fn compare_versions(one: &[u8], other: &[u8]) -> Ordering
    // The first text is a valid version.
    requires one { IsTrue (is_version one.now) }
    // The second text is a valid version.
    requires other { IsTrue (is_version other.now) }
    ensures { result ≡ version_cmp one.now other.now }
{
    match (Version::read(one), Version::read(other)) {
        (Some(one), Some(other)) => one.compare(&other),
        // Both texts are versions, by the contract.
        _ => unreachable!(),
    }
}

/// The parts of the entry of a package that passed its tests.
#[derive(Drop)]
struct Parts {
    /// The name of the package.
    name: Vec<u8>,
    /// The text of the package's version.
    version: Vec<u8>,
    /// The id of the package: the SHA-256 of its payload.
    id: [u8; 32],
    /// The entry in a payload of its own; none if the entry alone exceeds a limit of the writer.
    payload: Option<Vec<u8>>,
}

/// Tests the package in a file, which the operand at this place names, and returns the parts of its
/// entry.
fn read_parts(alloc: Global, place: u32, file: &[u8]) -> Result<Parts, MakeFault>
    // A refusal has the first test that fails.
    ensures bad { IfErr result (λ fault. IsRefusedAt place fault (package_fault file.now)) }
    // The package passes all its tests.
    ensures sound { IfOk result (λ _. package_fault file.now ≡ None) }
    // The package passes its tests, apart from those of its contents.
    ensures opened { IfOk result (λ _. container_fault_except_contents Tables.Package file.now
        ≡ None) }
    // The parts give the name, the version and the id of the package's entry.
    ensures keys { IfOk result (λ parts.
        IsEntryWithKeys parts.name.items parts.version.items parts.id
        (index_entry_of_package_file file.now)) }
    // The entry of the package is the copy of the root of a returned payload (*HoldsEntry*).
    ensures payload { IfOk result (λ parts.
        IfSome parts.payload (λ payload. HoldsEntry payload.items
        (index_entry_of_package_file file.now))) }
{
    // Laws that the proof needs; they compute nothing.
    a_canonical_payload_is_read_back();
    a_value_overflows_exactly_past_a_limit();
    sound_containers_hold_sound_values();
    values_are_normal();
    values_have_their_shape();
    let pkg = open_tested(alloc, place, file)?;
    let info = pkg.view().info();
    let mut name = Vec::new(alloc);
    name.extend_from_slice(info.name())?;
    let mut version = Vec::new(alloc);
    version.extend_from_slice(info.version())?;
    let id = pkg.id();
    Ok(Parts {
        name,
        version,
        id,
        payload: entry_payload(alloc, &pkg, &id, file.len() as u64)?,
    })
}

/// Tests a package completely.
///
/// # Errors
///
/// `FileBad` at this place with the cause of the first test that fails, or `Memory`.
pub(crate) fn open_tested<'a>(
    alloc: Global,
    place: u32,
    file: &'a [u8],
) -> Result<Package<'a>, MakeFault>
    // The error is the first failed test of the package, or out of memory.
    ensures bad { IfErr result (λ fault. IsRefusedAt place fault (package_fault file.entry.now)) }
    // The package passes all its tests.
    ensures sound { IfOk result (λ _. package_fault file.entry.now ≡ None) }
    // The package passes its tests, apart from those of its contents.
    ensures opened { IfOk result
        (λ _. container_fault_except_contents Tables.Package file.entry.now ≡ None) }
    // The value is that of the root in the file.
    ensures value { IfOk result (λ pkg.
        opened_value pkg ≡ root_value_of_payload Tables.Package (payload_in file.entry.now)) }
    // The payload is that of the file's first block.
    ensures payload { IfOk result (λ pkg. opened_payload pkg ≡ payload_in file.entry.now) }
{
    // A law that the proof needs; it computes nothing.
    a_package_is_tested_by_its_values_and_then_its_files();
    let mut pkg = match Package::new(alloc, file) {
        Ok(pkg) => pkg,
        Err(fault) => return Err(refused(place, fault)),
    };
    match test_files(&mut pkg) {
        Ok(()) => Ok(pkg),
        Err(cause) => Err(MakeFault::FileBad { place, cause }),
    }
}

/// Reads the files of a package to the last, which tests their contents.
fn test_files(pkg: &mut Package<'_>) -> Result<(), Cause>
    // An error is the fault of the first file whose contents are bad.
    ensures files { result_err result ≡ fault_of_files_read (opened_files pkg.old) }
    // The package's value is unchanged.
    ensures value { opened_value pkg.new ≡ opened_value pkg.old }
    // The package's payload is unchanged.
    ensures payload { opened_payload pkg.new ≡ opened_payload pkg.old }
{
    while pkg.next_file()?.is_some() {}
    Ok(())
}

/// The refusal of the package that the operand at this place names, for the fault of the package.
fn refused(place: u32, fault: PackageFault) -> MakeFault
    // If the fault is that of the first failed test (`failed`), the refusal has this test as its
    // cause.
    ensures { (failed : Option Cause) → IsFaultOf fault failed → IsRefusedAt place result failed }
{
    match fault {
        PackageFault::Bad(cause) => MakeFault::FileBad { place, cause },
        PackageFault::Memory => MakeFault::Memory,
    }
}
