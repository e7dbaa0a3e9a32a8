//! `mkpkg` and `mkndx`: they make a package and an index, which are sound.
//! The rules are in `docs/commands.md`, "`mkpkg`" and "`mkndx PACKAGE..`", with the refusals in
//! their order; that the result is sound, in `docs/DECISIONS.md`, "Making".
ghost use Rattle.base_core.specs.Calls.{IfObservable};
ghost use Rattle.base_core.specs.Read.{OnlyReads};
ghost use Rattle.make_core.specs.Files.{EachOperandReadFindsNoFileOrFileBytes, reads_of};
ghost use Rattle.make_core.specs.Index.{made_index};
ghost use Rattle.make_core.specs.Kept.{AgreesUnlessMemoryOrDisk};
ghost use Rattle.make_info.specs.Reads.{Reads};
ghost use Rattle.make_core.specs.Answers.{IsMadeBySomeReads, IsMadeFromTree, UnlessDiskOrMemory};
ghost use Rattle.pkg_core.specs.Whole.{container_fault};
ghost use Rattle.std.specs.Prelude.{◌≡◌, Ok, None, IfOk, IfErr};

use crate::laws::{a_made_index_is_sound, a_made_package_is_sound};
use crate::{indexes, packages};
use base_core::Tree;
use command_core::{Applet, Command};
use make_info::MakeFault;
use std::alloc::Global;

/// Makes the package that a command describes (apk(8), `mkpkg`): the container's bytes, which pass
/// all tests of a package. The tree is unchanged, whatever is returned.
///
/// # Errors
///
/// `FileMissing` at the place of the first script whose file is absent; then `InfoBad` as
/// `read_information` says; then `FileMissing` at the folder's place if a listed file is gone; then
/// `TooLarge` if the package's values exceed a limit of the writer. `Disk` if the tree failed, and
/// `Memory`.
pub fn mkpkg<T: Tree>(alloc: Global, command: &Command, tree: &mut T) -> Result<Vec<u8>, MakeFault>
    // The command is `mkpkg`.
    requires { command.now.applet ≡ Applet.Mkpkg }
    // If the tree is observable, a returned package is made of its files.
    ensures ok { IfOk result (λ file. IfObservable (T.history tree.old) (λ v.
        IsMadeFromTree command.now v (Ok file.items))) }
    // If the tree is observable, an error other than an I/O error or out of memory is the refusal
    // that follows from its files.
    ensures err { IfErr result (λ fault. UnlessDiskOrMemory fault (λ made.
        IfObservable (T.history tree.old) (λ v. IsMadeFromTree command.now v made))) }
    // For every tree, a returned package is made of some names below the folder and some results of
    // reads.
    ensures found { IfOk result (λ file. IsMadeBySomeReads command.now (Ok file.items)) }
    // For every tree, an error other than an I/O error or out of memory is the refusal for some
    // names below the folder and some results of reads.
    ensures found_err { IfErr result (λ fault. UnlessDiskOrMemory fault
        (IsMadeBySomeReads command.now)) }
    // The bytes that are returned pass all tests of a container.
    ensures sound { IfOk result (λ file. container_fault file.items ≡ None) }
    // The tree is only read, and `Disk` has a fault of the tree as its cause.
    ensures tree { OnlyReads MakeFault.Disk (T.history tree.old) (T.history tree.new)
        (T.counts tree.old) (T.counts tree.new) result }
{
    // A law that the proof needs; it computes nothing.
    a_made_package_is_sound();
    packages::make(alloc, command, tree)
}

/// Makes an index (apk(8), `mkndx`) of the packages that the operands name: the container's bytes,
/// which pass all tests of an index. Each package passes all its tests. The tree is unchanged,
/// whatever is returned.
///
/// # Errors
///
/// Operand by operand, `FileMissing` or `FileBad` at the operand's place; then `TooLarge` if the
/// index exceeds a limit of the writer. `Disk` if the tree failed, and `Memory`.
pub fn mkndx<T: Tree>(alloc: Global, command: &Command, tree: &mut T) -> Result<Vec<u8>, MakeFault>
    // The command is `mkndx`.
    requires { command.now.applet ≡ Applet.Mkndx }
    // If the tree is observable, the result is the index of its files or the first refusal, unless
    // it is out of memory or an I/O error.
    ensures made { IfObservable (T.history tree.old) (λ v.
        AgreesUnlessMemoryOrDisk (λ file. file.items) result (made_index command.now
        (reads_of v))) }
    // For every tree, the result is that for some result of each read (`read`). The read of the
    // first operand has the number 0.
    ensures found { (read : Reads)
        × EachOperandReadFindsNoFileOrFileBytes read 0 command.now.operands
        × AgreesUnlessMemoryOrDisk (λ file. file.items) result (made_index command.now read) }
    // The bytes that are returned pass all tests of a container.
    ensures sound { IfOk result (λ file. container_fault file.items ≡ None) }
    // The tree is only read, and `Disk` has a fault of the tree as its cause.
    ensures tree { OnlyReads MakeFault.Disk (T.history tree.old) (T.history tree.new)
        (T.counts tree.old) (T.counts tree.new) result }
{
    // A law that the proof needs; it computes nothing.
    a_made_index_is_sound();
    indexes::make(alloc, command, tree)
}
