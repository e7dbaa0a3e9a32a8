//! The tests of a whole container, the digests of contents, and the laws about both. The rules are
//! in `docs/formats.md`, "Tests of a container", for the order of the tests, and "The other
//! blocks".

ghost use Rattle.std.specs.Prelude.{◌≡◌, ◌≢◌, None, IfOk, IfErr, IfSome, IsTrue, is_some, length, ℕ, List, Some};
ghost use Rattle.std.specs.Option.{option_or};
ghost use Rattle.std.specs.Result.{result_err};
ghost use Rattle.pkg_core.specs.Contents.{fault_of_files_read, fault_if_wanted_and_found_digests_differ, fault_if_digest_is_not_of_bytes, contents_fault, contents_in, expected_files_of_package, files_read_from_blocks, ExpectedFile};
ghost use Rattle.pkg_core.specs.Opened.{opened_files};
ghost use Rattle.pkg_core.specs.Whole.{container_fault, package_fault, table_of_schema, container_fault_of_table, files_read_from_package, package_with_contents};
ghost use Rattle.pkg_core.specs.Refusals.{IsFaultOf};
ghost use Rattle.adb_view.specs.declared.tables.Which.TheVariants as Tables;
ghost use Rattle.base_core.specs.declared.cause.Digest.TheVariants as Digests;
ghost use Rattle.base_core.specs.declared.cause.Cause.{Cause};
ghost use Rattle.adb_block.specs.Reading.{Reading};
ghost use Rattle.adb_schema.specs.Soundness.{container_fault_except_contents, header_schema_if_root_table};
ghost use Rattle.pkg_core.specs.FirstContents.{IsFirstContentsFault};
ghost use Rattle.pkg_core.specs.GoodContents.{MatchEachExpectedSizeAndKnownDigest, MatchEachExpectedSizeAndDigest};

use crate::hasher::Hasher;
use crate::pack::{Package, PackageFault};
use adb_block::Blocks;
use adb_schema::{
    IDB_WORD, INDEX_WORD, INTENT_WORD, PACKAGE_WORD, Which, read_adb,
    the_first_bad_text_is_reported,
};
use base_core::{Cause, Digest as FoundDigest};
use std::alloc::Global;

/// Tests all of a container (apk-v3(5)) of any of the four schemas. The tests are: the file's
/// header, its schema, the first block's framing, its head, its shape, its texts, repeated names,
/// and the further blocks, which in a package include the contents of its files.
///
/// # Errors
///
/// `Bad` with the cause of the first failed test, or `Memory`. The cause is `WrongSchema` if the
/// schema is none of the four.
#[tactic(auto, unfolding(crate::specs::Whole::container_fault))]
pub fn verify(alloc: Global, bytes: &[u8]) -> Result<(), PackageFault>
    // The error is the first failed test, or out of memory.
    ensures bad { IfErr result (λ fault. IsFaultOf fault (container_fault bytes.now)) }
    // On Ok, none of these tests failed.
    ensures sound { IfOk result (λ _. container_fault bytes.now ≡ None) }
{
    // The schema in the header of the file.
    let found = Blocks::new(bytes)?.schema();
    match table_of_schema(found) {
        Some(which) => verify_as(alloc, bytes, which),
        None => Err(PackageFault::Bad(Cause::WrongSchema { found })),
    }
}

/// The table at the root of a container with this schema (apk-v3(5)); None if the schema is none of
/// the four.
pub fn table_of_schema(schema: u32) -> Option<Which>
    ensures root { result ≡ table_of_schema schema }
    // A table in the result is one that has a schema.
    ensures known { IfSome result (λ which. IsTrue (is_some (header_schema_if_root_table which))) }
{
    match schema {
        PACKAGE_WORD => Some(Which::Package),
        INDEX_WORD => Some(Which::Index),
        IDB_WORD => Some(Which::Idb),
        INTENT_WORD => Some(Which::Intent),
        _ => None,
    }
}

/// Tests a container that must have this table at its root.
fn verify_as(alloc: Global, bytes: &[u8], which: Which) -> Result<(), PackageFault>
    // The error is the first failed test, or out of memory.
    ensures bad { IfErr result (λ fault. IsFaultOf fault
        (container_fault_of_table which bytes.now)) }
    // On Ok, none of these tests failed.
    ensures sound { IfOk result (λ _. container_fault_of_table which bytes.now ≡ None) }
{
    match which {
        Which::Package => verify_package(alloc, bytes),
        _ => verify_other(alloc, bytes, which),
    }
}

/// Tests a package, with the contents of its files.
fn verify_package(alloc: Global, bytes: &[u8]) -> Result<(), PackageFault>
    // The error is the first failed test, or out of memory.
    ensures bad { IfErr result (λ fault. IsFaultOf fault (package_fault bytes.now)) }
    // On Ok, none of these tests failed.
    ensures sound { IfOk result (λ _. package_fault bytes.now ≡ None) }
{
    let mut pkg = Package::new(alloc, bytes)?;
    check_files(&mut pkg)?;
    Ok(())
}

/// Reads the files of a package to the last.
fn check_files(pkg: &mut Package<'_>) -> Result<(), Cause>
    // The error is the first failed test of the files that were still to be read.
    ensures { result_err result ≡ fault_of_files_read (opened_files pkg.old) }
{
    while pkg.next_file()?.is_some() {}
    Ok(())
}

/// Tests a container that is no package, and so has no contents.
#[tactic(auto, using(crate::proofs::Steps::other_fault))]
fn verify_other(alloc: Global, bytes: &[u8], which: Which) -> Result<(), PackageFault>
    // The table is not that of a package.
    requires { which ≢ Tables.Package }
    // The error is the first failed test, or out of memory.
    ensures bad { IfErr result (λ fault. IsFaultOf fault
        (container_fault_of_table which bytes.now)) }
    // On Ok, none of these tests failed.
    ensures sound { IfOk result (λ _. container_fault_of_table which bytes.now ≡ None) }
{
    read_adb(alloc, bytes, which)?;
    Ok(())
}

/// Why bytes do not have the digest `hash`; None if they have it. The length of the digest selects
/// the function: SHA-1, SHA-256 or SHA-512 (FIPS 180-4). A digest of another length is ignored; no
/// file with contents has one in a checked package.
pub(crate) fn fault_if_digest_is_not_of_bytes(hash: &[u8], bytes: &[u8]) -> Option<Cause>
    ensures { result ≡ fault_if_digest_is_not_of_bytes hash.now bytes.now }
{
    let mut hasher = Hasher::new(hash);
    hasher.update(bytes);
    hasher.fault(hash)
}

/// The fault if the listed SHA-1 (FIPS 180-4), `hash`, is not the computed one, `found`:
/// `HashDiffers`. None if both are equal.
pub fn sha1_fault(hash: &[u8], found: [u8; 20]) -> Option<Cause>
    // The listed digest has the length of a SHA-1.
    requires { length hash.now ≡ 20 }
    ensures { result ≡ fault_if_wanted_and_found_digests_differ Digests.Sha1 hash.now found }
{
    if hash == found.as_slice() {
        return None;
    }
    let mut wanted = [0; 20];
    wanted.copy_from_slice(hash);
    Some(Cause::HashDiffers {
        wanted: FoundDigest::Sha1(wanted),
        found: FoundDigest::Sha1(found),
    })
}

/// The fault if the listed SHA-256 (FIPS 180-4), `hash`, is not the computed one, `found`:
/// `HashDiffers`. None if both are equal.
pub fn sha256_fault(hash: &[u8], found: [u8; 32]) -> Option<Cause>
    // The listed digest has the length of a SHA-256.
    requires { length hash.now ≡ 32 }
    ensures { result ≡ fault_if_wanted_and_found_digests_differ Digests.Sha256 hash.now found }
{
    if hash == found.as_slice() {
        return None;
    }
    let mut wanted = [0; 32];
    wanted.copy_from_slice(hash);
    Some(Cause::HashDiffers {
        wanted: FoundDigest::Sha256(wanted),
        found: FoundDigest::Sha256(found),
    })
}

/// The fault if the listed SHA-512 (FIPS 180-4), `hash`, is not the computed one, `found`:
/// `HashDiffers`. None if both are equal.
pub fn sha512_fault(hash: &[u8], found: [u8; 64]) -> Option<Cause>
    // The listed digest has the length of a SHA-512.
    requires { length hash.now ≡ 64 }
    ensures { result ≡ fault_if_wanted_and_found_digests_differ Digests.Sha512 hash.now found }
{
    if hash == found.as_slice() {
        return None;
    }
    let mut wanted = [0; 64];
    wanted.copy_from_slice(hash);
    Some(Cause::HashDiffers {
        wanted: FoundDigest::Sha512(wanted),
        found: FoundDigest::Sha512(found),
    })
}

/// If no test of the blocks fails, they give the contents of each expected file, in order, and no
/// others: each with the positions, the size and the digest of its file.
pub fn good_blocks_give_the_contents_of_each_file()
    ensures { (expected : List ExpectedFile) (r : Reading) → contents_fault expected r ≡ None
        → MatchEachExpectedSizeAndKnownDigest expected (contents_in
        (files_read_from_blocks expected r)) }
{}

/// The reported fault of the blocks is the first one. Each block of contents is tested against the
/// next expected file. Then the framing after these blocks is tested, and finally that no file is
/// left.
pub fn the_first_fault_of_contents_is_reported()
    ensures { (expected : List ExpectedFile) (r : Reading) (c : Cause)
        → contents_fault expected r ≡ Some c → IsFirstContentsFault expected r c }
{}

/// The first failed test of a package is one of its values, and if they are good one of the blocks
/// after them.
pub fn a_package_is_tested_by_its_values_and_then_its_files()
    ensures { (file : List ℕ)
        → package_fault file
        ≡ option_or (container_fault_except_contents Tables.Package file) (fault_of_files_read
        (files_read_from_package file)) }
{}

/// A package in which no test fails has the contents of each of its files that has no target and a
/// size above 0, in order, and no others. Their length is the file's size, and their SHA-1, SHA-256
/// or SHA-512 (FIPS 180-4) its digest.
pub fn a_package_has_the_contents_of_its_files()
    ensures { (file : List ℕ) → package_fault file ≡ None
        → MatchEachExpectedSizeAndDigest (expected_files_of_package
        (package_with_contents file).value)
        (package_with_contents file).contents }
{
    // A law that the proof needs; it has no effect at run time.
    the_first_bad_text_is_reported();
}
