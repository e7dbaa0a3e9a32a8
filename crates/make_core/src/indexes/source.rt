//! The part of a package that is kept until the index is written.
//! `docs/DECISIONS.md`, "Making", has the rule: the file of a package whose information alone
//! exceeds a limit of the writer is kept to the end. `docs/commands.md`, "`mkndx PACKAGE..`",
//! defines an entry.
ghost use Rattle.pkg_core.specs.adb_schema.Soundness.{container_fault_except_contents, root_value_of_payload};
ghost use Rattle.adb_view.specs.FieldIndexes.{PACKAGE_INFO_INDEX};
ghost use Rattle.adb_view.specs.Values.{entry_at_index, is_sound, value_at};
ghost use Rattle.adb_view.specs.Adb.{payload_of};
ghost use Rattle.adb_view.specs.Head.{payload_head_fault, root_word_of_payload};
ghost use Rattle.adb_copy.specs.adb_values.Drafts.{draft_with};
ghost use Rattle.adb_copy.specs.adb_write.Canonical.{payload_or_counts_at_overflow};
ghost use Rattle.make_core.specs.Entries.{index_entry_of_package_file};
ghost use Rattle.adb_copy.specs.Zeros.{info_without_zeros_with_id_and_file_size};
ghost use Rattle.pkg_core.specs.Opened.{opened_payload, opened_value};
ghost use Rattle.sha2.specs.Sha256.{sha256};
ghost use Rattle.std.specs.Prelude.{◌≡◌, true, is_none, ◌<◌, ◌^◌, Ok, IfOk, IfSome, OnOk};
ghost use Rattle.adb_view.specs.declared.tables.Kind.TheVariants as Kinds;
ghost use Rattle.adb_view.specs.declared.tables.Which.TheVariants as Tables;

use adb_copy::{Draft, KnownTexts, WriteFault, write_info};
use adb_view::{Adb, Val};
use pkg_core::{Package, PackageFault, PkgInfo, View};
use std::alloc::{AllocError, Global};

/// A payload whose root is the entry of one package; the payload has no other values.
#[derive(Drop)]
pub(crate) struct EntryPayload {
    /// The bytes of the payload.
    pub(crate) payload: Vec<u8>,
    // The head of the payload passes its test.
    ghost head: { is_none (payload_head_fault payload.items) ≡ true },
    // The root of the payload is a sound object of the fields of table 3.
    ghost sound: { is_sound payload.items (Kinds.Obj Tables.PkgInfo)
        (root_word_of_payload payload.items)
        ≡ true },
}

/// The file of a package whose entry alone exceeds a limit of the writer.
#[derive(Drop)]
pub(crate) struct PackageFile {
    /// The bytes of the file.
    pub(crate) file: Vec<u8>,
    // The first block of the file passes all tests of a package; the contents after it were tested
    // before.
    ghost sound: { is_none (container_fault_except_contents Tables.Package file.items) ≡ true },
}

/// The source from which the entry of a package is written.
#[derive(Drop)]
pub(crate) enum EntrySource {
    /// The entry in a payload of its own.
    Payload(EntryPayload),
    /// The package's file, if the entry alone exceeds a limit of the writer. An index with it is
    /// too large; the two counts of the refusal are found by writing the entry again.
    File(PackageFile),
}

impl EntrySource {
    ghost use Rattle.make_core.specs.Kept.{entry_of_source};

    /// Writes the entry into a draft.
    pub(crate) fn write(&self, alloc: Global, draft: &mut Draft) -> Result<(), AllocError>
        // On Ok, the draft has one value more: the entry of the package.
        ensures { OnOk result (draft.new ≡ draft_with (entry_of_source self.now) draft.old) }
    {
        match self {
            EntrySource::Payload(own) => own.write(alloc, draft),
            EntrySource::File(own) => own.write(alloc, draft),
        }
    }
}

impl EntryPayload {
    ghost use Rattle.make_core.specs.Kept.{copy_of_entry};

    /// Writes the entry into a draft, with the id and the length of the file that the entry already
    /// has.
    fn write(&self, alloc: Global, draft: &mut Draft) -> Result<(), AllocError>
        // On Ok, the draft has one value more: the copy of the entry that is the root of this
        // payload.
        ensures { OnOk result (draft.new ≡ draft_with
            (copy_of_entry (root_value_of_payload Tables.PkgInfo self.now.payload.items)) draft.old) }
    {
        // The payload was written by this program, so its head passes the test.
        let Ok(adb) = Adb::new(&self.payload) else {
            unreachable!()
        };
        let info = PkgInfo::of(adb, adb.root());
        let id = info.hashes();
        write_entry_info(alloc, draft, adb, adb.root(), id, info.file_size())
    }
}

impl PackageFile {
    /// Writes the entry into a draft: the package is opened once more.
    fn write(&self, alloc: Global, draft: &mut Draft) -> Result<(), AllocError>
        // On Ok, the draft has one value more: the entry of the package in this file.
        ensures { OnOk result
            (draft.new ≡ draft_with (index_entry_of_package_file self.now.file.items) draft.old) }
    {
        match Package::new(alloc, &self.file) {
            Ok(pkg) => write_package(alloc, draft, &pkg, &pkg.id(), self.file.len() as u64),
            Err(PackageFault::Memory) => Err(AllocError),
            // The file was opened before, and passed the tests.
            Err(PackageFault::Bad(_)) => unreachable!(),
        }
    }
}

/// Writes the entry of a package with this id, whose file has this length.
fn write_package(
    alloc: Global,
    draft: &mut Draft,
    pkg: &Package<'_>,
    id: &[u8],
    len: u64,
) -> Result<(), AllocError>
    // The id is the SHA-256 digest of the payload.
    requires { id.now ≡ sha256 (opened_payload pkg.now) }
    // On Ok, the draft has one value more: the information of the package, with its id and the
    // length of its file.
    ensures { OnOk result (draft.new ≡ draft_with
        (info_without_zeros_with_id_and_file_size (entry_at_index
        (opened_value pkg.now) PACKAGE_INFO_INDEX)
        (sha256
        (opened_payload pkg.now))
        len) draft.old) }
{
    let info = pkg.view().info();
    write_entry_info(alloc, draft, info.adb(), info.word(), id, len)
}

/// Writes the information that the word `info` of a payload gives, with `id` as its hash and `len`
/// as the size of the package's file. Each entry is written from a payload of its own, so `known`
/// (the texts of this payload that the draft already contains) is empty at first.
fn write_entry_info(
    alloc: Global,
    draft: &mut Draft,
    adb: Adb<'_>,
    info: Val,
    id: &[u8],
    len: u64,
) -> Result<(), AllocError>
    // The word refers to a sound object of the fields of table 3.
    requires { is_sound (payload_of adb) (Kinds.Obj Tables.PkgInfo) info ≡ true }
    ensures { OnOk result (draft.new ≡ draft_with (info_without_zeros_with_id_and_file_size
        (value_at (payload_of adb.entry) (Kinds.Obj Tables.PkgInfo) info) id.now len) draft.old) }
{
    let mut known = KnownTexts::new(alloc);
    write_info(draft, adb, &mut known, info, id, len)
}

/// The entry of a package in a payload of its own, or None if the entry exceeds a limit of the
/// writer. `id` is the package's id, and `len` is the length of its file.
pub(crate) fn entry_payload(
    alloc: Global,
    pkg: &Package<'_>,
    id: &[u8],
    len: u64,
) -> Result<Option<Vec<u8>>, AllocError>
    // The id is the SHA-256 digest of the payload.
    requires { id.now ≡ sha256 (opened_payload pkg.now) }
    // The length fits into 64 bits.
    ensures small { len < 2 ^ 64 }
    // If a payload is returned, it is that of the entry.
    ensures payload { IfOk result (λ found. IfSome found (λ payload. payload_or_counts_at_overflow
        (info_without_zeros_with_id_and_file_size (entry_at_index
        (opened_value pkg.now) PACKAGE_INFO_INDEX)
        (sha256
        (opened_payload pkg.now))
        len) ≡ Ok payload.items)) }
{
    let mut draft = Draft::new(alloc);
    write_package(alloc, &mut draft, pkg, id, len)?;
    match draft.finish() {
        Ok(payload) => Ok(Some(payload)),
        Err(WriteFault::TooLarge { .. }) => Ok(None),
        Err(WriteFault::Memory) => Err(AllocError),
    }
}
