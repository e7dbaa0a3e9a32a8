//! The reader and the tests of a package in a tree: its front, its values, and then the blocks
//! after them piece by piece. The rules are in `docs/formats.md`, "Tests of a container", and "The
//! other blocks", the last list (the front, and the pieces).

ghost use Rattle.std.specs.Prelude.{◌≡◌, ℕ, List, Option, Some, IfOk};
ghost use Rattle.package_reader.specs.adb_schema.declared.read.TheConstants.{PACKAGE_WORD};
ghost use Rattle.base_core.specs.Calls.{IfObservable};
ghost use Rattle.base_core.specs.Read.{OnlyReads};
ghost use Rattle.base_core.specs.Tree.{files_of};
ghost use Rattle.base_core.specs.declared.tree.TreeFault.TheVariants.{Disk as DiskFault};
ghost use Rattle.package_verifier.specs.Places.{HasSoundPayload, IsWholeTested};
ghost use Rattle.package_verifier.specs.Tested.{IsPackageReadResult};
ghost use Rattle.package_reader.specs.pkg_core.Front.{IsFrontOf, front_end, front_file_len, front_payload};
ghost use Rattle.package_reader.specs.pkg_core.Seen.{HasBytesAtOffset, IsSeenIn, ReadsFile};

use crate::files::{FilesTest, read_files};
use crate::package::TestedPackage;
use base_core::{Cause, Name, Tree, TreeFault};
use package_reader::{Contents, Front, FrontFault, PACKAGE_WORD, PackageFault, read_front};
use std::alloc::Global;

/// The result of reading and testing the package under a name.
#[derive(Drop)]
pub enum PackageRead {
    /// There is no file.
    Absent,
    /// The first test that failed.
    Bad(Cause),
    /// The file is a package, and no test fails.
    Sound(TestedPackage),
}

/// Reads the package under a name, and tests it: its front, its values, and then the blocks after
/// them, piece by piece. The tests and their order are those of a package in memory. The tree is
/// unchanged, whatever the result.
///
/// # Errors
///
/// `Disk` if the tree failed, or `Memory`.
pub fn read_package<T: Tree>(
    alloc: Global,
    tree: &mut T,
    name: &Name,
) -> Result<PackageRead, TreeFault>
    // The result is right for some file, or for none (`found`). If the tree is observable, this is
    // what the tree has under the name.
    ensures read { IfOk result (λ read. (found : Option (List ℕ))
        × IfObservable (T.history tree.old) (λ v. found ≡ files_of v name.now)
        × IsPackageReadResult name.now found read) }
    // The tree is unchanged. `Disk` is returned only if the tree failed, and no call is a misuse if
    // the tree is observable.
    ensures tree { OnlyReads DiskFault (T.history tree.old) (T.history tree.new)
        (T.counts tree.old) (T.counts tree.new) result }
{
    let own_name = name.copy(alloc)?;
    read_named(alloc, tree, name, own_name)
}

/// Reads and tests the package under a name, with a copy of the name that a tested package is to
/// own.
fn read_named<T: Tree>(
    alloc: Global,
    tree: &mut T,
    name: &Name,
    own_name: Name,
) -> Result<PackageRead, TreeFault>
    // The copy has the bytes of the name.
    requires { own_name ≡ name.now }
    // The result is right for some file, or for none (`found`). If the tree is observable, this is
    // what the tree has under the name.
    ensures read { IfOk result (λ read. (found : Option (List ℕ))
        × IfObservable (T.history tree.old) (λ v. found ≡ files_of v name.now)
        × IsPackageReadResult name.now found read) }
    // The tree is unchanged. `Disk` is returned only if the tree failed, and no call is a misuse if
    // the tree is observable.
    ensures tree { OnlyReads DiskFault (T.history tree.old) (T.history tree.new)
        (T.counts tree.old) (T.counts tree.new) result }
{
    match read_front(alloc, tree, name, PACKAGE_WORD) {
        Ok(Some(front)) => {
            let test = test_values_and_files(alloc, tree, name, &front)?;
            Ok(read_by(own_name, front, test))
        }
        Ok(None) => Ok(PackageRead::Absent),
        Err(FrontFault::Bad(cause)) => Ok(PackageRead::Bad(cause)),
        Err(FrontFault::Disk) => Err(TreeFault::Disk),
        Err(FrontFault::Memory) => Err(TreeFault::Memory),
    }
}

/// The result of reading the package of this name with this front, given the result of the tests of
/// its values and files.
fn read_by(name: Name, front: Front, test: FilesTest) -> PackageRead
    // If no test failed, the payload of the front passes all tests of its values.
    requires { HasSoundPayload front test }
    // The result is that of `read_package` for each package with this front for which these are the
    // results of all tests.
    ensures { (pkg : List ℕ) → IsFrontOf PACKAGE_WORD pkg front → IsWholeTested pkg test
        → IsPackageReadResult name (Some pkg) result }
{
    match test {
        FilesTest::Sound(places) => PackageRead::Sound(TestedPackage {
            name,
            front,
            places,
        }),
        FilesTest::Bad(cause) => PackageRead::Bad(cause),
    }
}

/// Tests the values after a front and, if they are good, the blocks after them.
fn test_values_and_files<T: Tree>(
    alloc: Global,
    tree: &mut T,
    name: &Name,
    front: &Front,
) -> Result<FilesTest, TreeFault>
    // For each package with this front that has the bytes read after the front (`seen`): the result
    // is that of all tests of the package.
    ensures whole { IfOk result (λ test. (seen : List ℕ)
        × IsSeenIn (T.history tree.old) name.now (front_file_len front.now) (front_end front.now)
        seen
        × ((pkg : List ℕ) → IsFrontOf PACKAGE_WORD pkg front.now
        → HasBytesAtOffset pkg (front_end front.now) seen → IsWholeTested pkg test)) }
    // If no test failed, the payload of the front passes all tests of its values.
    ensures payload { IfOk result (HasSoundPayload front.now) }
    // The tree is unchanged. `Disk` is returned only if the tree failed, and no call is a misuse if
    // the tree has a file of this length under the name.
    ensures tree { ReadsFile name.now (front_file_len front.now) DiskFault (T.history tree.old)
        (T.history tree.new) (T.counts tree.old) (T.counts tree.new) result }
{
    match Contents::new(alloc, front) {
        Ok(contents) => read_files(alloc, tree, name, front, &contents),
        Err(PackageFault::Bad(cause)) => Ok(FilesTest::Bad(cause)),
        Err(PackageFault::Memory) => Err(TreeFault::Memory),
    }
}
