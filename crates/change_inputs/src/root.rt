//! The files of a root: how they are read, and tested for a command; and `Refused`, which says why
//! a command is not completed. The rules are in `docs/commands.md`, "`add` and `del`", parts "What
//! is read" and "What is refused".

ghost use Rattle.base_core.specs.Read.{OnlyReads, bytes_in};
ghost use Rattle.change_inputs.specs.Answers.{Agrees, IsDiskOrMemoryFailure, IsFileFoundInTree};
ghost use Rattle.change_inputs.specs.Inputs.{root_from_databases_world_repositories, Inputs, first_index_read_number, inputs_of};
ghost use Rattle.change_inputs.specs.RootFiles.{AreRootFilesInTree};
ghost use Rattle.change_inputs.specs.Seen.{root_seen};
ghost use Rattle.root_names.specs.RootNames.{database_name, repositories_name, text_database_name, world_name};
ghost use Rattle.std.specs.Prelude.{◌≡◌, IfErr, IfOk, IsOkAnd, None, OnOk, ◌<◌, ◌+◌, ℕ, List, Ok, length};
ghost use Rattle.db_core.specs.adb_schema.ReadFaults.{IsReadFault};
ghost use Rattle.db_core.specs.adb_schema.Soundness.{container_fault_except_contents, payload_fault, payload_in};
ghost use Rattle.command_core.specs.Command.{CommandLine};
ghost use Rattle.package_files.specs.make_info.Reads.{Reads};

use crate::database::DatabaseFile;
use crate::index::repositories_of;
use crate::world::{Worlds, worlds_of};
use base_core::{Name, Tree, TreeFault, read_all};
use command_core::Command;
use db_core::{ReadFault, Which, read_adb};
use dep_core::Repos;
use report_core::Refusal;
use root_names::{database_name, repositories_name, text_database_name, world_name};
use std::alloc::{AllocError, Global};

/// The bytes of the files of a root, each None if it is absent. The text database is read only if
/// there is no database file.
#[derive(Drop)]
pub(crate) struct RootFiles {
    /// `lib/apk/db/installed.adb`.
    pub(crate) database: Option<Vec<u8>>,
    /// `lib/apk/db/installed`, which version 2 wrote.
    pub(crate) text_database: Option<Vec<u8>>,
    /// `etc/apk/world`.
    pub(crate) world: Option<Vec<u8>>,
    /// `etc/apk/repositories`.
    pub(crate) repositories: Option<Vec<u8>>,
}

/// The contents of a root's files for a command. All of them passed their tests.
#[derive(Drop)]
pub(crate) struct TestedRoot {
    /// The packages that are installed before the command.
    pub(crate) database: DatabaseFile,
    /// World before the command, and world after the command has added or removed its entries.
    pub(crate) worlds: Worlds,
    /// The repositories that may be read.
    pub(crate) repositories: Repos,
}

/// Reads the files of a root: first the databases, then world and the repositories.
pub(crate) fn read_root<T: Tree>(alloc: Global, tree: &mut T) -> Result<RootFiles, Refused>
    // On an observable tree, each file is that of the tree under the file's name.
    ensures found { IfOk result (λ files. AreRootFilesInTree (T.history tree.old) files) }
    // Nothing is refused here.
    ensures failed { IfErr result IsDiskOrMemoryFailure }
    // The tree is only read, and `Disk` has a counted fault of the tree as its cause.
    ensures tree { OnlyReads Refused.Disk (T.history tree.old) (T.history tree.new)
        (T.counts tree.old) (T.counts tree.new) result }
{
    let databases = read_databases(alloc, tree)?;
    let lists = read_lists(alloc, tree)?;
    Ok(RootFiles {
        database: databases.0,
        text_database: databases.1,
        world: lists.0,
        repositories: lists.1,
    })
}

// Reads world and the list of repositories of a root. Returns both, each None if it is absent.
fn read_lists<T: Tree>(
    alloc: Global,
    tree: &mut T,
) -> Result<(Option<Vec<u8>>, Option<Vec<u8>>), Refused>
    // If the tree's files are observable, the world that is found is the file under its name.
    ensures world { IfOk result (λ found.
        IsFileFoundInTree (T.history tree.old) world_name (bytes_in found.0)) }
    // The list of repositories is the file under its name too.
    ensures repositories { IfOk result (λ found.
        IsFileFoundInTree (T.history tree.old) repositories_name (bytes_in found.1)) }
    // Nothing is refused here.
    ensures failed { IfErr result IsDiskOrMemoryFailure }
    // The tree is only read, and `Disk` has a counted fault of the tree as its cause.
    ensures tree { OnlyReads Refused.Disk (T.history tree.old) (T.history tree.new)
        (T.counts tree.old) (T.counts tree.new) result }
{
    let world = read_named_file(alloc, tree, world_name(alloc))?;
    let repositories = read_named_file(alloc, tree, repositories_name(alloc))?;
    Ok((world, repositories))
}

/// Reads the database's file of a root, and the text database if there is no database file. Returns
/// both, each None if it is absent or was not read.
pub(crate) fn read_databases<T: Tree>(
    alloc: Global,
    tree: &mut T,
) -> Result<(Option<Vec<u8>>, Option<Vec<u8>>), Refused>
    // If the tree's files are observable, the database that is found is the file under its name.
    ensures database { IfOk result (λ found.
        IsFileFoundInTree (T.history tree.old) database_name (bytes_in found.0)) }
    // Without a database file, the text database that is found is the file under its name.
    ensures text_database { IfOk result (λ found. bytes_in found.0 ≡ None
        → IsFileFoundInTree (T.history tree.old) text_database_name (bytes_in found.1)) }
    // Nothing is refused here.
    ensures failed { IfErr result IsDiskOrMemoryFailure }
    // The tree is only read, and `Disk` has a counted fault of the tree as its cause.
    ensures tree { OnlyReads Refused.Disk (T.history tree.old) (T.history tree.new)
        (T.counts tree.old) (T.counts tree.new) result }
{
    let database = read_named_file(alloc, tree, database_name(alloc))?;
    match database {
        Some(file) => Ok((Some(file), None)),
        None => {
            let text = read_named_file(alloc, tree, text_database_name(alloc))?;
            Ok((None, text))
        }
    }
}

/// Tests the files of a root, and returns their contents for a command.
///
/// # Errors
///
/// Those of the database, then `WorldBad`, `RepositoriesBad`, and `Untrusted` if there is a
/// repository and `--allow-untrusted` is not given. Or `Memory`.
pub(crate) fn test_root(
    alloc: Global,
    command: &Command,
    files: RootFiles,
) -> Result<TestedRoot, Refused>
    // The result is that of the definition: the contents, or the first refusal; or out of memory.
    ensures { Agrees root_seen result (root_from_databases_world_repositories command.now
        (bytes_in files.database)
        (bytes_in files.text_database) (bytes_in files.world) (bytes_in files.repositories)) }
{
    let RootFiles {
        database,
        text_database,
        world,
        repositories,
    } = files;
    let flags = command.flags();
    let database = DatabaseFile::of(alloc, flags.initdb, database, text_database)?;
    let worlds = worlds_of(alloc, command, world)?;
    let repositories = repositories_of(alloc, flags.allow_untrusted, repositories)?;
    Ok(TestedRoot {
        database,
        worlds,
        repositories,
    })
}

// The whole file under a name of the root, or None exactly if it is absent. `name` is what the
// call returned that makes the name: the name, or out of memory.
fn read_named_file<T: Tree>(
    alloc: Global,
    tree: &mut T,
    name: Result<Name, AllocError>,
) -> Result<Option<Vec<u8>>, Refused>
    // If the tree's files are observable, the result is the file under the name.
    ensures found { IfOk result (λ found. IsOkAnd name (λ name.
        IsFileFoundInTree (T.history tree.old) name (bytes_in found))) }
    // Nothing is refused here.
    ensures failed { IfErr result IsDiskOrMemoryFailure }
    // The tree is only read, and `Disk` has a counted fault of the tree as its cause.
    ensures tree { OnlyReads Refused.Disk (T.history tree.old) (T.history tree.new)
        (T.counts tree.old) (T.counts tree.new) result }
{
    let name = name?;
    read_file(alloc, tree, &name)
}

/// The whole file under a name, or None exactly if it is absent.
pub(crate) fn read_file<T: Tree>(
    alloc: Global,
    tree: &mut T,
    name: &Name,
) -> Result<Option<Vec<u8>>, Refused>
    // If the tree's files are observable, the result is the file under the name.
    ensures found { IfOk result (λ found.
        IsFileFoundInTree (T.history tree.old) name.now (bytes_in found)) }
    // Nothing is refused here.
    ensures failed { IfErr result IsDiskOrMemoryFailure }
    // The tree is only read, and `Disk` has a counted fault of the tree as its cause.
    ensures tree { OnlyReads Refused.Disk (T.history tree.old) (T.history tree.new)
        (T.counts tree.old) (T.counts tree.new) result }
{
    Ok(read_all(alloc, tree, name)?)
}

/// Tests a file completely, as a container with this table at its root.
pub(crate) fn test_file(alloc: Global, file: &[u8], which: Which) -> Result<(), ReadFault>
    // A refusal has the first test that the file fails.
    ensures bad { IfErr result (λ fault. IsReadFault fault
        (container_fault_except_contents which file.now)) }
    // Ok only if the file passes each test, except those of contents of files.
    ensures passed { OnOk result (container_fault_except_contents which file.now ≡ None) }
    // If the file passes, its payload passes the tests of a payload too.
    ensures sound { OnOk result (payload_fault which (payload_in file.now) ≡ None) }
{
    read_adb(alloc, file, which)?;
    Ok(())
}

/// Why a command is not completed.
#[derive(Drop)]
pub enum Refused {
    /// The command is refused.
    Refusal(Refusal),
    /// An I/O error of the tree.
    Disk,
    /// Out of memory.
    Memory,
}

impl From<AllocError> for Refused {
    ghost use Rattle.std.specs.Prelude.{◌≡◌};
    ghost use Rattle.change_inputs.specs.declared.root.Refused.TheVariants.{Memory};

    // What a caller returns by `?` on this fault.
    ghost from_gives = { λ _ refused. refused ≡ Memory };

    // Out of memory as the end of a command.
    fn from(_: AllocError) -> Refused {
        Refused::Memory
    }
}

impl From<TreeFault> for Refused {
    ghost use Rattle.change_inputs.specs.Faults.{IsRefusedOf};

    // What a caller returns by `?` on this fault.
    ghost from_gives = { λ fault refused. IsRefusedOf fault refused };

    // A fault of the tree as the end of a command.
    fn from(fault: TreeFault) -> Refused {
        match fault {
            TreeFault::Disk => Refused::Disk,
            TreeFault::Memory => Refused::Memory,
        }
    }
}

/// A law: inputs depend only on the reads of the four files of a root, and on one read for each
/// index. Later reads of a command do not matter.
pub fn inputs_depend_on_their_own_reads()
    ensures { (command : CommandLine) (read other : Reads) (inputs : Inputs)
        → inputs_of command read ≡ Ok inputs
        → ((n : ℕ) (name : List ℕ) → n < first_index_read_number + length inputs.root.repositories
        → read n name ≡ other n name)
        → inputs_of command other ≡ Ok inputs }
{}
