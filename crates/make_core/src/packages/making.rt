//! Makes the package that a command describes, from what it reads in a tree.
//! The rule is in `docs/commands.md`, "`mkpkg`", with the refusals in their order.
ghost use Rattle.base_core.specs.Read.{OnlyReads};
ghost use Rattle.make_core.specs.Answers.{IsBytes, IsMakeResult};
ghost use Rattle.make_core.specs.Making.{made_package};
ghost use Rattle.package_files.specs.Runs.{AgreesOrIsFault, HoldsOfSomeReadsOfTree};
ghost use Rattle.std.specs.Prelude.{◌≡◌};

use crate::packages::assembly::package;
use crate::packages::reading::{list_names, pack_below, read_scripts};
use crate::packages::writing::Script;
use base_core::{Names, Tree, consecutive_reads_compose};
use command_core::{Applet, Command, a_command_has_what_its_applet_may_have};
use package_files::{MakeFault, Packing, contents_are_in_their_container, read_information};
use std::alloc::Global;

/// Makes the package that a command describes: lists the names below its folder, reads the scripts
/// and the files, each once, and writes the container's bytes. The tree is unchanged, whatever is
/// returned.
///
/// # Errors
///
/// `FileMissing` at the place of the first script whose file is absent; then `InfoBad` as
/// `read_information` says; then `FileMissing` at the folder's place if a listed file is gone; then
/// `TooLarge` if the package's values exceed a limit of the writer. `Disk` if the tree failed, and
/// `Memory`.
pub(crate) fn make<T: Tree>(
    alloc: Global,
    command: &Command,
    tree: &mut T,
) -> Result<Vec<u8>, MakeFault>
    // The command is `mkpkg`.
    requires { command.now.applet ≡ Applet.Mkpkg }
    // The tree is only read, and `Disk` has a fault of the tree as its cause.
    ensures tree { OnlyReads MakeFault.Disk (T.history tree.old) (T.history tree.new)
        (T.counts tree.old) (T.counts tree.new) result }
    // The result is the package of the command, of some names below its folder and of some results
    // of reads, or the first refusal. If the tree is observable, these are its names and its files.
    ensures made { IsMakeResult (T.history tree.old) command.now result }
{
    // A law that the proof needs; it computes nothing.
    a_command_has_what_its_applet_may_have();
    let names = list_names(alloc, tree, command.values())?;
    pack(alloc, command, tree, &names)
}

/// Makes the package of a command, of the names that are listed below its folder: scripts first,
/// then the information, then the files.
fn pack<T: Tree>(
    alloc: Global,
    command: &Command,
    tree: &mut T,
    names: &Names,
) -> Result<Vec<u8>, MakeFault>
    // The command is `mkpkg`.
    requires { command.now.applet ≡ Applet.Mkpkg }
    // The tree is only read: no file changes, no I/O error is hidden, and no call is a misuse.
    ensures tree { OnlyReads MakeFault.Disk (T.history tree.old) (T.history tree.new)
        (T.counts tree.old) (T.counts tree.new) result }
    // Some results of reads give this result. If the tree is observable, the reads find its files.
    ensures read { HoldsOfSomeReadsOfTree (T.history tree.old) (λ read.
        AgreesOrIsFault IsBytes result (made_package command.now names.now read)) }
{
    // Laws that the proof needs; they compute nothing.
    a_command_has_what_its_applet_may_have();
    contents_are_in_their_container();
    consecutive_reads_compose::<Vec<Script<'_>>, Packing<'_>, MakeFault>();
    let values = command.values();
    let scripts = read_scripts(alloc, tree, values)?;
    let about = read_information(alloc, command)?;
    let packing = pack_below(alloc, tree, values, names)?;
    package(alloc, command, &about, packing, &scripts)
}
