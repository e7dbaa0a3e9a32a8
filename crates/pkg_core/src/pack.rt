//! A package in memory: its values, and the contents of its files in order. The rules are in
//! `docs/formats.md`, "Tests of a container" and "The other blocks".

ghost use Rattle.std.specs.Prelude.{◌≡◌, None, IfOk, IfErr};
ghost use Rattle.sha2.specs.Sha256.{sha256};
ghost use Rattle.adb_block.specs.Reading.{block_stream_from};
ghost use Rattle.adb_schema.specs.Checked.{table_of_checked};
ghost use Rattle.adb_schema.specs.Soundness.{container_fault_except_contents, payload_in, root_value_of_payload};
ghost use Rattle.adb_view.specs.declared.tables.Which.TheVariants as Tables;
ghost use Rattle.pkg_core.specs.Contents.{expected_files_of_package, files_read_from_blocks};
ghost use Rattle.pkg_core.specs.Whole.{files_read_from_package};

use crate::walk::{FileContents, Rest, Walk};
use adb_block::Blocks;
use adb_schema::{Checked, PackageView, ReadFault, Which, read_adb};
use base_core::Cause;
use sha2::{Digest, Sha256};
use std::alloc::Global;
use thiserror::Error;

/// Why a package or a container is refused.
#[derive(Clone, Copy, Debug, Drop, Error)]
pub enum PackageFault {
    /// The first test that failed.
    #[error("bad container")]
    Bad(Cause),
    /// Out of memory.
    #[error("out of memory")]
    Memory,
}

impl From<Cause> for PackageFault {
    ghost use Rattle.std.specs.Prelude.{◌≡◌};
    ghost use Rattle.pkg_core.specs.declared.pack.PackageFault.TheVariants.{Bad};

    // What `from` returns.
    ghost from_gives = { λ cause fault. fault ≡ Bad cause };

    /// A failed test becomes `Bad`.
    fn from(cause: Cause) -> PackageFault {
        PackageFault::Bad(cause)
    }
}

impl From<ReadFault> for PackageFault {
    ghost use Rattle.std.specs.Prelude.{◌≡◌};
    ghost use Rattle.pkg_core.specs.Refusals.{fault_of_read};

    // What `from` returns.
    ghost from_gives = { λ read fault. fault ≡ fault_of_read read };

    /// A failed test of the values becomes `Bad`, and a lack of memory becomes `Memory`.
    fn from(fault: ReadFault) -> PackageFault {
        match fault {
            ReadFault::Bad(cause) => PackageFault::Bad(cause),
            ReadFault::Memory => PackageFault::Memory,
        }
    }
}

/// A package whose values were tested, with a reader of its files: before the first file, between
/// two files, or after the last. Everything is borrowed from the file's bytes. Contracts see, by
/// `Opened` of `specs/`, the plain value, its bytes, and the files that are left.
#[derive(Drop)]
pub struct Package<'a> {
    /// The tested values of the package.
    checked: Checked<'a>,
    /// The payload of the first block, whose digest is the id.
    payload: &'a [u8],
    /// The blocks and the files that are still to be read.
    rest: Rest<'a>,
    /// The test of the blocks that failed, if one did: each later call of `next_file` returns it.
    refused: Option<Cause>,
    // The payload's root is a package.
    ghost table: { table_of_checked checked ≡ Tables.Package },
}

impl<'a> Package<'a> {
    ghost use Rattle.adb_schema.specs.SoundValues.{ObeysTextAndNumberRulesOfTable};
    ghost use Rattle.adb_schema.specs.Views.{package_value};
    ghost use Rattle.pkg_core.specs.Opened.{opened_files, opened_payload, opened_value, IsNextFile};
    ghost use Rattle.pkg_core.specs.Whole.{payload_sha256_of_package_file};
    ghost use Rattle.pkg_core.specs.Refusals.{IsFaultOf};

    /// Reads the values of a package, and tests them in this order: the file's header, its schema,
    /// the first block's framing, its head, its shape, its texts, and repeated names. `next_file`
    /// reads the further blocks.
    ///
    /// # Errors
    ///
    /// `Bad` with the cause of the first test that fails, or `Memory`.
    pub fn new(alloc: Global, bytes: &'a [u8]) -> Result<Package<'a>, PackageFault>
        // The error is the first failed test, apart from those of the contents, or out of memory.
        ensures bad { IfErr result
            (λ fault. IsFaultOf fault
            (container_fault_except_contents Tables.Package bytes.entry.now)) }
        // On Ok, none of these tests failed.
        ensures sound { IfOk result
            (λ _. container_fault_except_contents Tables.Package bytes.entry.now ≡ None) }
        // The plain value is that of the payload of the file's first block.
        ensures value { IfOk result
            (λ pkg. opened_value pkg
            ≡ root_value_of_payload Tables.Package (payload_in bytes.entry.now)) }
        // The payload is that of the package's first block.
        ensures payload { IfOk result (λ pkg. opened_payload pkg ≡ payload_in bytes.entry.now) }
        // The id of the package is the SHA-256 digest of its payload.
        ensures id { IfOk result (λ pkg. sha256 (opened_payload pkg)
            ≡ payload_sha256_of_package_file bytes.entry.now) }
        // The files that `next_file` will read are those of the package.
        ensures files { IfOk result (λ pkg. opened_files pkg
            ≡ files_read_from_package bytes.entry.now) }
    {
        let checked = read_adb(alloc, bytes, Which::Package)?;
        // The payload of the first block, and the blocks after it.
        let (payload, blocks) = first_block(bytes);
        let walk = Walk::new(checked.package().paths());
        Ok(Package {
            checked,
            payload,
            rest: Rest { blocks, walk },
            refused: None,
        })
    }

    /// A law: each text and number of the package obeys the rule of its field. For example, the
    /// name of a folder is a path.
    pub fn values_keep_their_rules(&self)
        ensures { ObeysTextAndNumberRulesOfTable Tables.Package (opened_value self.now) }
    {
        // A law that the proof needs; it has no effect at run time.
        self.checked.values_keep_their_rules();
    }

    /// The values of the package, as a view of its table.
    pub fn view(&self) -> PackageView<'a>
        ensures { package_value result ≡ opened_value self.now }
    {
        self.checked.package()
    }

    /// The package's identity: the SHA-256 (FIPS 180-4) of the bytes of its values.
    pub fn id(&self) -> [u8; 32]
        ensures { result ≡ sha256 (opened_payload self.now) }
    {
        Sha256::digest(self.payload)
    }

    /// The contents of the next file, in the order of folders and of the files in them. Files with
    /// a target or with size 0 have none. The result is None if and only if no block is left.
    ///
    /// # Errors
    ///
    /// The first failed test, block by block: the framing of the block; contents of fewer than 8
    /// bytes (`Truncated`); contents of another file than the next one, or of none, or no contents
    /// if a file is left (`DataOrder`); another size (`DataSize`); another digest (`HashDiffers`).
    /// After an error the next call returns the same error.
    pub fn next_file(&mut self) -> Result<Option<FileContents<'a>>, Cause>
        // The result is the next of the files that are left, and the later ones stay left.
        ensures file { IsNextFile (opened_files self.old) result (opened_files self.new) }
        // The package's value is unchanged.
        ensures value { opened_value self.new ≡ opened_value self.old }
        // The package's payload is unchanged.
        ensures payload { opened_payload self.new ≡ opened_payload self.old }
    {
        if let Some(cause) = self.refused {
            return Err(cause);
        }
        match self.rest.next() {
            Ok(contents) => Ok(contents),
            Err(cause) => {
                self.refused = Some(cause);
                Err(cause)
            }
        }
    }
}

/// The payload of the first block, and the blocks after it.
#[tactic(auto, unfolding(adb_schema::specs::Soundness::container_fault_except_contents, adb_schema::specs::Soundness::payload_in, crate::specs::Whole::files_read_from_package))]
fn first_block<'a>(bytes: &'a [u8]) -> (&'a [u8], Blocks<'a>)
    // The container passes all tests, apart from those of its contents.
    requires { container_fault_except_contents Tables.Package bytes.now ≡ None }
    // The first part of the result is the payload of the first block.
    ensures payload { result.0.now ≡ payload_in bytes.entry.now }
    // The blocks in the second part of the result give the files of the package.
    ensures files { files_read_from_blocks (expected_files_of_package
        (root_value_of_payload Tables.Package result.0.now))
        (block_stream_from result.1) ≡ files_read_from_package bytes.entry.now }
{
    // No test of the values failed, so that the header is good and the first block is there.
    let Ok(mut blocks) = Blocks::new(bytes) else {
        unreachable!()
    };
    match blocks.next() {
        Ok(Some(block)) => (block.payload, blocks),
        _ => unreachable!(),
    }
}
