//! Reads the package of a candidate once, from the file `NAME-VERSION.apk` beside the index that
//! has it. The package is tested, and compared with its entry in the index.
//!
//! The rules are in `docs/commands.md`, "`add` and `del`", parts "What is read" and "What is
//! refused". A package is refused if its file is absent, fails a test, or has another id, name or
//! version than its entry in the index. The tests are in `docs/formats.md`, "Tests of a container".

ghost use Rattle.change_outcome.specs.Arrivals.{IsPackageRead};
ghost use Rattle.change_outcome.specs.NameReads.{IsAnswerByRead, package_of_candidate_by_read, added_package_read, package_of_candidate_by_path};
ghost use Rattle.package_verifier.specs.Tested.{tested_id, tested_value};
ghost use Rattle.change_outcome.specs.Told.{IsRefusalReported};
ghost use Rattle.base_core.specs.Read.{OnlyReads};
ghost use Rattle.change_inputs.specs.Answers.{Agrees};
ghost use Rattle.change_outcome.specs.PackageFiles.{AddedPackage, package_file_path_of_candidate, scripts_of_change, package_unless_other_than_candidate, unless_script_needed};
ghost use Rattle.package_changes.specs.Changes.{candidate_version_text};
ghost use Rattle.package_changes.specs.Seen.{change_seen};
ghost use Rattle.change_inputs.specs.candidate_core.Values.{candidate_value};
ghost use Rattle.report_core.specs.declared.refusal.Refusal.TheVariants.{PackageBad, PackageMissing, PackageDiffers};
ghost use Rattle.std.specs.Prelude.{◌≡◌, true, IfOk};
ghost use Rattle.package_verifier.specs.adb_schema.Views.{package_value};
ghost use Rattle.report_core.specs.declared.refusal.Refusal.{Refusal as RefusalValue};

use crate::scripts::test_scripts;
use base_core::{Cause, Name, Text, Tree};
use change_inputs::{Candidate, Refused};
use dep_core::Repos;
use package_changes::{Change, is_same_id_by_nonempty_prefix};
use package_verifier::{PackageRead, PackageView, TestedPackage, read_package};
use report_core::Refusal;
use report_core::numbers::{HASHES_FIELD, NAME_FIELD, VERSION_FIELD};
use root_names::package_file_beside;
use std::alloc::{AllocError, Global};
use std::marker::PhantomData;

/// Reads the package of the candidate `c`, which has this name. Tests the package's file, that it
/// is as the index says, and, unless scripts are left out, that no script of it would run in this
/// change.
///
/// # Errors
///
/// `PackageMissing`, `PackageBad`, `PackageDiffers` or `ScriptNeeded`, in this order; `Disk` if
/// the tree failed, or `Memory`.
pub(crate) fn read_added<T: Tree>(
    alloc: Global,
    tree: &mut T,
    repositories: &Repos,
    no_scripts: bool,
    name: &[u8],
    change: &Change<'_>,
    c: &Candidate<'_>,
) -> Result<TestedPackage, Refused>
    // The result is that of the definition, for a read that finds the tree's file, or some file.
    ensures found { IsAnswerByRead (IsPackageRead (T.history tree.old))
        (T.history tree.old) (added_package_read repositories.now no_scripts name.now
        (change_seen change.now) (candidate_value c.now)) result }
    // The tree is only read, and `Disk` has a fault of the tree as its cause.
    ensures tree { OnlyReads Refused.Disk (T.history tree.old) (T.history tree.new)
        (T.counts tree.old) (T.counts tree.new) result }
{
    let pkg = read_candidate(alloc, tree, repositories, c)?;
    test_own_scripts(alloc, no_scripts, name, change, &pkg)?;
    Ok(pkg)
}

/// Refuses a tested package that has a script which its change would have to run, unless scripts
/// are left out.
fn test_own_scripts(
    alloc: Global,
    no_scripts: bool,
    name: &[u8],
    change: &Change<'_>,
    pkg: &TestedPackage,
) -> Result<(), Refused>
    // Refused exactly if a script of the package would have to run and is not skipped.
    ensures { Agrees (λ _. true) result (unless_script_needed no_scripts name.now
        (tested_value pkg.now)
        (scripts_of_change (change_seen change.now)) true) }
{
    let contents = pkg.contents();
    let view = contents.view();
    // The last argument has no value: it only gives the view's type a lifetime.
    test_scripts(alloc, no_scripts, name, change, &view, PhantomData)
}

/// Reads the package of a candidate. Tests the package's file, and that the package is as the index
/// says.
fn read_candidate<T: Tree>(
    alloc: Global,
    tree: &mut T,
    repositories: &Repos,
    c: &Candidate<'_>,
) -> Result<TestedPackage, Refused>
    // The result is that of the definition, for a read that finds the tree's file, or some file.
    ensures found { IsAnswerByRead (IsPackageRead (T.history tree.old))
        (T.history tree.old) (package_of_candidate_by_read repositories.now
        (candidate_value c.now)) result }
    // The tree is only read, and `Disk` has a fault of the tree as its cause.
    ensures tree { OnlyReads Refused.Disk (T.history tree.old) (T.history tree.new)
        (T.counts tree.old) (T.counts tree.new) result }
{
    match package_file_path_of_candidate(alloc, repositories, c)? {
        None => Err(missing(alloc, c)),
        Some(path) => read_beside(alloc, tree, c, &path),
    }
}

/// The path of a candidate's package file: `NAME-VERSION.apk`, in the folder of the index of its
/// repository. None if the candidate is of no repository, or this path is no valid name.
fn package_file_path_of_candidate(
    alloc: Global,
    repositories: &Repos,
    c: &Candidate<'_>,
) -> Result<Option<Name>, AllocError>
    ensures { IfOk result (λ path.
        path ≡ package_file_path_of_candidate repositories.now (candidate_value c.now)) }
{
    let Some(number) = c.repo else {
        return Ok(None);
    };
    // Repositories count from 1, and places in their list from 0.
    let i = number.saturating_sub(1);
    if i >= repositories.len() as u64 {
        return Ok(None);
    }
    let index = repositories.path(i as usize);
    package_file_beside(alloc, index, c.info.name(), c.info.version())
}

/// Reads the package of a candidate from the file at this path. Tests the file, and that the
/// package is as the index says.
fn read_beside<T: Tree>(
    alloc: Global,
    tree: &mut T,
    c: &Candidate<'_>,
    path: &Name,
) -> Result<TestedPackage, Refused>
    // The result is that of the definition, for a read that finds the tree's file, or some file.
    ensures found { IsAnswerByRead (IsPackageRead (T.history tree.old))
        (T.history tree.old) (package_of_candidate_by_path
        (candidate_value c.now) path.now) result }
    // The tree is only read, and `Disk` has a fault of the tree as its cause.
    ensures tree { OnlyReads Refused.Disk (T.history tree.old) (T.history tree.new)
        (T.counts tree.old) (T.counts tree.new) result }
{
    match read_package(alloc, tree, path)? {
        PackageRead::Absent => Err(missing(alloc, c)),
        PackageRead::Bad(cause) => Err(bad(alloc, c, cause)),
        PackageRead::Sound(pkg) => {
            test_as_indexed(alloc, c, &pkg, PhantomData)?;
            Ok(pkg)
        }
    }
}

/// Tests that a tested package has the id, name and version of its candidate. `_mark` serves only
/// the borrow checker: it does not know the parts of a view that is made and lent here unless the
/// signature names the view.
fn test_as_indexed<'a>(
    alloc: Global,
    c: &Candidate<'_>,
    pkg: &'a TestedPackage,
    _mark: PhantomData<PackageView<'a>>,
) -> Result<(), Refused>
    // Refused if the package, here `coming`, differs from the candidate in id, name or version.
    ensures { (coming : AddedPackage) → coming.value ≡ tested_value pkg.now
        → coming.id ≡ tested_id pkg.now
        → Agrees (λ _. coming) result (package_unless_other_than_candidate
        (candidate_value c.now) coming) }
{
    let contents = pkg.contents();
    let view = contents.view();
    test_same(alloc, c, &view, &contents.id())
}

/// The refusal of a candidate whose package file is absent, or has a path that is no name.
fn missing(alloc: Global, c: &Candidate<'_>) -> Refused
    // The result is this refusal, or out of memory for its texts.
    ensures { IsRefusalReported (PackageMissing (candidate_value c.now).name
        (candidate_version_text (candidate_value c.now))) result }
{
    told(package_missing(alloc, c))
}

/// The refusal `PackageMissing`, with the name and the version of the candidate.
fn package_missing(alloc: Global, c: &Candidate<'_>) -> Result<Refusal, AllocError>
    ensures { IfOk result (λ refusal. refusal ≡ PackageMissing (candidate_value c.now).name
        (candidate_version_text (candidate_value c.now))) }
{
    Ok(Refusal::PackageMissing {
        name: Text::of(alloc, c.info.name())?,
        version: Text::of(alloc, c.info.version())?,
    })
}

/// The refusal of a candidate whose package file fails a test, with the test as its cause.
fn bad(alloc: Global, c: &Candidate<'_>, cause: Cause) -> Refused
    // The result is this refusal, or out of memory for its texts.
    ensures { IsRefusalReported (PackageBad (candidate_value c.now).name
        (candidate_version_text (candidate_value c.now)) cause) result }
{
    told(package_bad(alloc, c, cause))
}

/// The refusal `PackageBad`, with the name and the version of the candidate, and the test that
/// failed.
fn package_bad(alloc: Global, c: &Candidate<'_>, cause: Cause) -> Result<Refusal, AllocError>
    ensures { IfOk result (λ refusal. refusal ≡ PackageBad (candidate_value c.now).name
        (candidate_version_text (candidate_value c.now)) cause) }
{
    Ok(Refusal::PackageBad {
        name: Text::of(alloc, c.info.name())?,
        version: Text::of(alloc, c.info.version())?,
        cause,
    })
}

/// Tests that a package has the id, the name and the version of its candidate.
///
/// # Errors
///
/// `PackageDiffers` with the first of these that differs, or `Memory`.
pub(crate) fn test_same(
    alloc: Global,
    c: &Candidate<'_>,
    pkg: &PackageView<'_>,
    id: &[u8],
) -> Result<(), Refused>
    // Refused if the package, here `coming`, differs from the candidate in id, name or version.
    ensures { (coming : AddedPackage) → coming.value ≡ package_value pkg.now → coming.id ≡ id.now
        → Agrees (λ _. coming) result (package_unless_other_than_candidate
        (candidate_value c.now) coming) }
{
    let info = pkg.info();
    if !is_same_id_by_nonempty_prefix(c.info.hashes(), id) {
        return Err(differs(alloc, c, HASHES_FIELD, c.info.hashes(), id));
    }
    if c.info.name() != info.name() {
        return Err(differs(alloc, c, NAME_FIELD, c.info.name(), info.name()));
    }
    if c.info.version() != info.version() {
        return Err(differs(alloc, c, VERSION_FIELD, c.info.version(), info.version()));
    }
    Ok(())
}

/// The refusal of a candidate whose package differs in a field from the index: `wanted` is the
/// value in the index, `found` that of the package.
fn differs(alloc: Global, c: &Candidate<'_>, field: u16, wanted: &[u8], found: &[u8]) -> Refused
    // The error is this refusal, unless memory runs out.
    ensures { IsRefusalReported (PackageDiffers (candidate_value c.now).name
        (candidate_version_text (candidate_value c.now)) field wanted.now found.now) result }
{
    told(package_differs(alloc, c, field, wanted, found))
}

/// The refusal `PackageDiffers`, with the name and version of the candidate, and both values of the
/// field.
fn package_differs(
    alloc: Global,
    c: &Candidate<'_>,
    field: u16,
    wanted: &[u8],
    found: &[u8],
) -> Result<Refusal, AllocError>
    // The refusal names the candidate, the field and both values.
    ensures { IfOk result (λ refusal. refusal ≡ PackageDiffers (candidate_value c.now).name
        (candidate_version_text (candidate_value c.now)) field wanted.now found.now) }
{
    Ok(Refusal::PackageDiffers {
        name: Text::of(alloc, c.info.name())?,
        version: Text::of(alloc, c.info.version())?,
        field,
        wanted: Text::of(alloc, wanted)?,
        found: Text::of(alloc, found)?,
    })
}

/// The end of a call with this refusal, or out of memory if there was no memory for its texts.
pub(crate) fn told(made: Result<Refusal, AllocError>) -> Refused
    // If the call made the wanted refusal, the result is this refusal, or out of memory.
    ensures { (wanted : RefusalValue) → IfOk made (λ refusal. refusal ≡ wanted)
        → IsRefusalReported wanted result }
{
    match made {
        Ok(refusal) => Refused::Refusal(refusal),
        Err(_) => Refused::Memory,
    }
}
