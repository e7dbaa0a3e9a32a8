//! The database of a root alone, as commands read it that only report on installed packages, such
//! as `info`. The rules are in `docs/commands.md`,
//! "`info`" and "A root of version 2".
ghost use Rattle.base_core.specs.Read.{OnlyReads};
ghost use Rattle.change_inputs.specs.Answers.{AgreesUnlessDiskOrMemory};
ghost use Rattle.change_inputs.specs.Inputs.{database_for};
ghost use Rattle.change_inputs.specs.Seen.{installed_seen};
ghost use Rattle.db_core.specs.Seen.{packages_of};
ghost use Rattle.package_files.specs.Runs.{HoldsOfSomeReadsOfTree};
ghost use Rattle.std.specs.Prelude.{◌≡◌, IfOk};

use crate::database::DatabaseFile;
use crate::root::{Refused, read_databases};
use base_core::Tree;
use command_core::Command;
use db_core::Db;
use std::alloc::{AllocError, Global};

/// The database of a root, which passed its tests. Its bytes are kept.
#[derive(Drop)]
pub struct Installed {
    /// The database of the root, or `New` if the command begins a database without packages.
    database: DatabaseFile,
}

impl Installed {
    /// Reads what is installed, for a command that changes nothing. The tree is unchanged, whatever
    /// is returned.
    ///
    /// # Errors
    ///
    /// `NoDatabase`, if there is none and `--initdb` is not given; `DatabaseBad`, or
    /// `ResultTooLarge` for a text database that exceeds a limit of the writer. `Disk` if the tree
    /// failed, and `Memory`.
    pub fn read<T: Tree>(
        alloc: Global,
        command: &Command,
        tree: &mut T,
    ) -> Result<Installed, Refused>
        // The result is that of the definition for some contents at each read. On an observable
        // tree these are the tree's files.
        ensures found { HoldsOfSomeReadsOfTree (T.history tree.old) (λ read.
            AgreesUnlessDiskOrMemory installed_seen result (database_for command.now read)) }
        // The tree is only read, and `Disk` has a counted fault of the tree as its cause.
        ensures tree { OnlyReads Refused.Disk (T.history tree.old) (T.history tree.new)
            (T.counts tree.old) (T.counts tree.new) result }
    {
        // The database's file, and the text database, each None if absent.
        let found = read_databases(alloc, tree)?;
        let may_begin = command.flags().initdb;
        let database = DatabaseFile::of(alloc, may_begin, found.0, found.1)?;
        Ok(Installed { database })
    }

    /// The packages that are installed, opened over the bytes that are kept.
    pub fn db(&self, alloc: Global) -> Result<Db<'_>, AllocError>
        ensures { IfOk result (λ db. packages_of db ≡ (installed_seen self.now).packages) }
    {
        self.database.open(alloc)
    }
}
