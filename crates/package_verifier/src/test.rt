//! The result of the tests of a package in a tree. The rules are in `docs/formats.md`, "Tests of a
//! container", and `docs/commands.md`, "`verify FILE..`".

ghost use Rattle.std.specs.Prelude.{◌≡◌, ℕ, List, Option, Some, IfOk};
ghost use Rattle.base_core.specs.Calls.{IfObservable};
ghost use Rattle.base_core.specs.Read.{OnlyReads};
ghost use Rattle.base_core.specs.Tree.{files_of};
ghost use Rattle.base_core.specs.declared.tree.TreeFault.TheVariants.{Disk as DiskFault};
ghost use Rattle.package_reader.specs.pkg_core.Whole.{package_fault};
ghost use Rattle.package_verifier.specs.Tested.{IsPackageReadResult};
ghost use Rattle.package_verifier.specs.Tests.{IsPackageTestResult};

use crate::read::{PackageRead, read_package};
use base_core::{Cause, Name, Tree, TreeFault};
use std::alloc::Global;

/// The result of testing the file under a name as a package.
#[derive(Clone, Copy, Debug, PartialEq, Eq, Drop)]
pub enum PackageTest {
    /// There is no file.
    Absent,
    /// The file passes the tests of its header, and has another schema. Nothing after its header
    /// was tested.
    OtherSchema,
    /// The file is a package, and no test fails.
    Sound,
    /// The first test that failed.
    Bad(Cause),
}

/// Tests the file under a name as a package: its front, its values, and then the blocks after them,
/// piece by piece. The tests and their order are those of a container in memory. The tree is
/// unchanged, whatever the result.
///
/// # Errors
///
/// `Disk` if the tree failed, or `Memory`.
pub fn test_package<T: Tree>(
    alloc: Global,
    tree: &mut T,
    name: &Name,
) -> Result<PackageTest, TreeFault>
    // The result is right for some file, or for none (`found`). If the tree is observable, this is
    // what the tree has under the name.
    ensures tests { IfOk result (λ test. (found : Option (List ℕ))
        × IfObservable (T.history tree.old) (λ v. found ≡ files_of v name.now)
        × IsPackageTestResult found test) }
    // The tree is unchanged. `Disk` is returned only if the tree failed, and no call is a misuse if
    // the tree is observable.
    ensures tree { OnlyReads DiskFault (T.history tree.old) (T.history tree.new)
        (T.counts tree.old) (T.counts tree.new) result }
{
    let read = read_package(alloc, tree, name)?;
    Ok(test_of(&read))
}

/// The result of the tests, by the result of the read.
fn test_of(read: &PackageRead) -> PackageTest
    // If this is the result of reading a file, or none, the returned result is that of testing it.
    ensures { (name : List ℕ) (found : Option (List ℕ)) → IsPackageReadResult name found read.now
        → IsPackageTestResult found result }
{
    match read {
        PackageRead::Absent => PackageTest::Absent,
        PackageRead::Sound(_) => PackageTest::Sound,
        PackageRead::Bad(cause) => test_by(*cause),
    }
}

/// The result of the tests if this is the first test that failed.
fn test_by(cause: Cause) -> PackageTest
    // The result is that for each file whose first failed test is this one.
    ensures { (file : List ℕ) → package_fault file ≡ Some cause
        → IsPackageTestResult (Some file) result }
{
    match cause {
        Cause::WrongSchema { .. } => PackageTest::OtherSchema,
        cause => PackageTest::Bad(cause),
    }
}
