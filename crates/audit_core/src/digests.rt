//! The command `manifest`, which prints the digest and path of each file of some packages. The
//! rules are in `docs/commands.md`, "`manifest`".

ghost use Rattle.path_clashes.specs.adb_fields.ListValue.{list_value};
ghost use Rattle.path_clashes.specs.adb_fields.Repeated.{list_of};
ghost use Rattle.path_clashes.specs.adb_fields.Paths.{path_of};
ghost use Rattle.adb_view.specs.Values.{count_of, entries_in, entry_at_index};
ghost use Rattle.audit_core.specs.Manifest.{manifest_line, manifest_of, package_manifest};
ghost use Rattle.audit_core.specs.Records.{file_record, folder_records};
ghost use Rattle.db_core.specs.Seen.{packages_of};
ghost use Rattle.hex.specs.Hex.{encode_lower};
ghost use Rattle.report_core.specs.AuditReports.{digest_with_algorithm_name};
ghost use Rattle.report_core.specs.Reports.{report_line};
ghost use Rattle.std.specs.List.{flat_map};
ghost use Rattle.std.specs.Option.{option_map_or};
ghost use Rattle.std.specs.Prelude.{◌≡◌, ◌<◌, ◌++◌, [], IfOk, OnOk, length, map, slice_get};

use base_core::Text;
use command_core::Operands;
use db_core::{Db, DirInfo, FileInfo, List, PackageView};
use report_core::Refusal;
use std::alloc::{AllocError, Global};
use std::marker::PhantomData;

/// How many bytes a SHA-1 digest has (FIPS 180-4).
const SHA1_LEN: usize = 20;

/// How many bytes a SHA-256 digest has (FIPS 180-4).
const SHA256_LEN: usize = 32;

/// How many bytes a SHA-512 digest has (FIPS 180-4).
const SHA512_LEN: usize = 64;

/// Reports a line for each file of the packages that are named, in the order given: the digest that
/// the database has, and the path. The files of a package are in the order of the database.
///
/// # Errors
///
/// The inner error is `NotInstalled`, at the first operand that names no installed package. The
/// outer error is out of memory.
pub fn manifest(
    alloc: Global,
    db: &Db<'_>,
    names: &Operands,
) -> Result<Result<Text, Refusal>, AllocError>
    // On Ok, the answer is that of the definition: the lines, or the refusal.
    ensures { IfOk result (λ answer. answer ≡ manifest_of (packages_of db.now) names.now) }
{
    let mut report = Vec::new(alloc);
    for i in 0..names.len() {
        let operand = names.get(i);
        match db.find(operand.text.as_bytes()) {
            Some(place) => push_package(alloc, &mut report, db, place, PhantomData)?,
            None => {
                return Ok(Err(Refusal::NotInstalled {
                    place: operand.place,
                }));
            }
        }
    }
    Ok(Ok(Text::from_vec(report)))
}

// Adds the lines of the package with the index `place`, counted from 0. `_mark` serves the borrow
// checker alone: it does not know the parts of a view that is made and lent here, unless the
// signature has the view's type.
fn push_package<'a>(
    alloc: Global,
    report: &mut Vec<u8>,
    db: &Db<'a>,
    place: usize,
    _mark: PhantomData<PackageView<'a>>,
) -> Result<(), AllocError>
    // There is a package at this place.
    requires { place < length (packages_of db.now) }
    // On Ok, the text of the definition is appended.
    ensures { OnOk result (report.new.items ≡ report.old.items
        ++ option_map_or package_manifest (slice_get (packages_of db.now) place) []) }
{
    let package = db.package(place);
    push_folders(alloc, report, &package.paths())
}

// Adds the lines of the files of a package's folders, in their order.
fn push_folders<'a>(
    alloc: Global,
    report: &mut Vec<u8>,
    folders: &List<'a, DirInfo<'a>>,
) -> Result<(), AllocError>
    // On Ok, the line of each file of these folders is appended.
    ensures { OnOk result (report.new.items ≡ report.old.items ++ flat_map manifest_line
        (flat_map folder_records (list_of (entries_in (list_value folders.now))))) }
{
    for i in 0..folders.len() {
        push_folder(alloc, report, folders, i)?;
    }
    Ok(())
}

// Adds the lines of the files of the folder with the index `i`, counted from 0.
fn push_folder<'a>(
    alloc: Global,
    report: &mut Vec<u8>,
    folders: &List<'a, DirInfo<'a>>,
    i: usize,
) -> Result<(), AllocError>
    // There is a folder at this place.
    requires { i < count_of (entries_in (list_value folders.now)) }
    // On Ok, the text of the definition is appended.
    ensures { OnOk result (report.new.items ≡ report.old.items
        ++ flat_map manifest_line (folder_records (entry_at_index (list_value folders.now) i))) }
{
    // The precondition excludes this. The call of `len` tells the checker that a list has fewer
    // than 2^32 entries.
    if i >= folders.len() {
        unreachable!();
    }
    // `get` counts from 1.
    let folder = folders.get(i + 1);
    push_files(alloc, report, folder.name(), &folder.files())
}

// Adds the lines of files in their order. `folder` is the name of their folder.
fn push_files<'a>(
    alloc: Global,
    report: &mut Vec<u8>,
    folder: &[u8],
    files: &List<'a, FileInfo<'a>>,
) -> Result<(), AllocError>
    // On Ok, the line of each of these files is appended.
    ensures { OnOk result (report.new.items ≡ report.old.items ++ flat_map manifest_line
        (map (file_record folder.now) (list_of (entries_in (list_value files.now))))) }
{
    for i in 0..files.len() {
        push_file(alloc, report, folder, files, i)?;
    }
    Ok(())
}

// Adds the line of the file with the index `i`, counted from 0. `folder` is the name of its folder.
fn push_file<'a>(
    alloc: Global,
    report: &mut Vec<u8>,
    folder: &[u8],
    files: &List<'a, FileInfo<'a>>,
    i: usize,
) -> Result<(), AllocError>
    // There is a file at this place.
    requires { i < count_of (entries_in (list_value files.now)) }
    // On Ok, the text of the definition is appended.
    ensures { OnOk result (report.new.items ≡ report.old.items
        ++ manifest_line (file_record folder.now (entry_at_index (list_value files.now) i))) }
{
    // The precondition excludes this. The call of `len` tells the checker that a list has fewer
    // than 2^32 entries.
    if i >= files.len() {
        unreachable!();
    }
    // `get` counts from 1.
    let file = files.get(i + 1);
    push_digest(alloc, report, file.hashes())?;
    report.extend_from_slice(b"  ")?;
    push_path(report, folder, file.name())
}

// Adds a digest with the name of its function, which its length determines.
fn push_digest(alloc: Global, report: &mut Vec<u8>, digest: &[u8]) -> Result<(), AllocError>
    // On Ok, the text of the definition is appended.
    ensures { OnOk result (report.new.items ≡ report.old.items
        ++ digest_with_algorithm_name digest.now) }
{
    match digest.len() {
        SHA1_LEN => push_digits(alloc, report, b"sha1:", digest),
        SHA256_LEN => push_digits(alloc, report, b"sha256:", digest),
        SHA512_LEN => push_digits(alloc, report, b"sha512:", digest),
        _ => {
            report.extend_from_slice(b"none")?;
            Ok(())
        }
    }
}

// Adds `function`, the name of a hash function with a colon, and the digest in hexadecimal digits.
fn push_digits(
    alloc: Global,
    report: &mut Vec<u8>,
    function: &[u8],
    digest: &[u8],
) -> Result<(), AllocError>
    // On Ok, the text of the definition is appended.
    ensures { OnOk result (report.new.items
        ≡ report.old.items ++ (function.now ++ encode_lower digest.now)) }
{
    let digits = hex::encode(alloc, digest)?;
    report.extend_from_slice(function)?;
    report.extend_from_slice(digits.as_bytes())?;
    Ok(())
}

// Adds the path of the file `name` in the folder `folder`, and a line end. The root folder has the
// empty name; then the path has no `/` before the file's name.
fn push_path(report: &mut Vec<u8>, folder: &[u8], name: &[u8]) -> Result<(), AllocError>
    // On Ok, the text of the definition is appended.
    ensures { OnOk result (report.new.items
        ≡ report.old.items ++ report_line (path_of folder.now name.now)) }
{
    if !folder.is_empty() {
        report.extend_from_slice(folder)?;
        report.push(b'/')?;
    }
    report.extend_from_slice(name)?;
    report.push(b'\n')?;
    Ok(())
}
