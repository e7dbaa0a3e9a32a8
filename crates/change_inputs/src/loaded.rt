//! What a change reads of a root, and the candidates for the solver. The rules are in
//! `docs/commands.md`, "`add` and `del`", parts "What is read" and "What is refused"; those of the
//! candidates are in `docs/selection.md`, "What there is to choose from".
ghost use Rattle.base_core.specs.Read.{OnlyReads};
ghost use Rattle.change_inputs.specs.Answers.{Agrees, AgreesUnlessDiskOrMemory};
ghost use Rattle.change_inputs.specs.Candidates.{candidates_of_repositories_from, candidates_of, root_pool};
ghost use Rattle.change_inputs.specs.Inputs.{inputs_of};
ghost use Rattle.change_inputs.specs.RootFiles.{AreRootFilesInTree};
ghost use Rattle.db_core.specs.Seen.{packages_of};
ghost use Rattle.package_files.specs.Runs.{HoldsOfSomeReadsOfTree};
ghost use Rattle.pool_core.specs.candidate_core.declared.candidate_list.TheConstants.{MOST_CANDIDATES};
ghost use Rattle.pool_core.specs.candidate_core.Values.{IsPoolFault, names_upgraded_by};
ghost use Rattle.std.specs.Option.{option_copied};
ghost use Rattle.std.specs.Prelude.{◌≡◌, ◌≤◌, [], IfErr, IfOk, OnOk, length};

use crate::index::{IndexFiles, read_index_files};
use crate::root::{Refused, RootFiles, TestedRoot, read_root, test_root};
use base_core::Tree;
use command_core::Command;
use db_core::Db;
use dep_core::{Repos, World};
use pool_core::{Pool, PoolFault, Sealed, Upgrade};
use report_core::Refusal;
use std::alloc::{AllocError, Global};

/// What a change reads of a root: its database, world, its repositories and their indexes. All
/// passed their tests, and the bytes are kept.
pub struct Loaded {
    /// The contents of the root's files.
    root: TestedRoot,
    /// The files of the indexes, one for each repository.
    indexes: IndexFiles,
    // There is one index for each repository.
    ghost paired: { length indexes.files.items ≡ length root.repositories },
}

/// Drops the parts in one call, so that a function that gives up has one drop and not many.
impl Drop for Loaded {
    fn drop(self) {
        let Loaded {
            root: _,
            indexes: _,
        } = self;
    }
}

impl Loaded {
    ghost use Rattle.change_inputs.specs.Seen.{indexes_seen, inputs_seen};

    /// Reads the inputs of a command: the database, world, the list of repositories and their
    /// indexes, and tests them in this order. The tree is unchanged, whatever is returned.
    ///
    /// # Errors
    ///
    /// `NoDatabase`, if there is none and `--initdb` is not given; `DatabaseBad`, or
    /// `ResultTooLarge` for a text database that exceeds a limit of the writer; `WorldBad`;
    /// `RepositoriesBad`; `Untrusted`; `IndexMissing` for the first index that is absent;
    /// `IndexBad` for the first one that fails a test. `Disk` if the tree failed, and `Memory`.
    pub fn read<T: Tree>(alloc: Global, command: &Command, tree: &mut T) -> Result<Loaded, Refused>
        // The inputs are those of the definition for some contents at each read. On an observable
        // tree these are the tree's files.
        ensures found { HoldsOfSomeReadsOfTree (T.history tree.old) (λ read.
            AgreesUnlessDiskOrMemory inputs_seen result (inputs_of command.now read)) }
        // The tree is only read, and `Disk` has a counted fault of the tree as its cause.
        ensures tree { OnlyReads Refused.Disk (T.history tree.old) (T.history tree.new)
            (T.counts tree.old) (T.counts tree.new) result }
    {
        let files = read_root(alloc, tree)?;
        Loaded::of_files(alloc, command, files, tree)
    }

    // The inputs of a command, given the files of a root: tests these files, and reads and tests
    // the indexes of the repositories that they list.
    fn of_files<T: Tree>(
        alloc: Global,
        command: &Command,
        files: RootFiles,
        tree: &mut T,
    ) -> Result<Loaded, Refused>
        // On an observable tree, the given files are those of the tree.
        requires { AreRootFilesInTree (T.history tree.old) files }
        // The inputs are those of the definition for some contents at each read. On an observable
        // tree these are the tree's files.
        ensures found { HoldsOfSomeReadsOfTree (T.history tree.old) (λ read.
            AgreesUnlessDiskOrMemory inputs_seen result (inputs_of command.now read)) }
        // The tree is only read, and `Disk` has a counted fault of the tree as its cause.
        ensures tree { OnlyReads Refused.Disk (T.history tree.old) (T.history tree.new)
            (T.counts tree.old) (T.counts tree.new) result }
    {
        let root = test_root(alloc, command, files)?;
        let found = read_index_files(alloc, &root.repositories, tree)?;
        let indexes = IndexFiles::test(alloc, found)?;
        Ok(Loaded { root, indexes })
    }

    /// The packages that are installed, opened over the bytes that are kept.
    pub fn db(&self, alloc: Global) -> Result<Db<'_>, AllocError>
        ensures { IfOk result (λ db.
            packages_of db ≡ (inputs_seen self.now).root.database.packages) }
    {
        self.root.database.open(alloc)
    }

    /// The bytes of the database's file, and None if it is absent.
    pub fn database_file(&self) -> Option<&[u8]>
        ensures { option_copied result ≡ (inputs_seen self.now).root.database.file }
    {
        self.root.database.file()
    }

    /// Whether the installed packages are from a text database, which a change converts.
    pub fn is_from_text(&self) -> bool
        ensures { result ≡ (inputs_seen self.now).root.database.from_text }
    {
        self.root.database.is_from_text()
    }

    /// The text of world's file, and nothing if it is absent.
    pub fn world_text(&self) -> &[u8]
        ensures { result.now ≡ (inputs_seen self.now).root.world_text }
    {
        &self.root.worlds.text
    }

    /// World before the command.
    pub fn world(&self) -> &World
        ensures { result.now ≡ (inputs_seen self.now).root.world }
    {
        &self.root.worlds.before
    }

    /// World after the command has added or removed its entries.
    pub fn new_world(&self) -> &World
        ensures { result.now ≡ (inputs_seen self.now).root.new_world }
    {
        &self.root.worlds.after
    }

    /// The repositories, in the order of their file.
    pub fn repositories(&self) -> &Repos
        ensures { result.now ≡ (inputs_seen self.now).root.repositories }
    {
        &self.root.repositories
    }

    /// The candidates of the indexes and of the database, for the new world and for the names that
    /// the command upgrades.
    ///
    /// # Errors
    ///
    /// `TooMany` if there are more than a pool can have, or `Memory`.
    pub fn pool<'a>(&'a self, alloc: Global, upgrade: Upgrade<'a>) -> Result<Sealed<'a>, Refused>
        // The result is that of the definition: the candidates, or the refusal; or out of memory.
        ensures { Agrees (λ pool. pool) result
            (root_pool (inputs_seen self.entry.now) (names_upgraded_by upgrade.entry)) }
    {
        match self.candidates(alloc) {
            Ok(pool) => Ok(pool.seal(&self.root.worlds.after, upgrade)?),
            Err(PoolFault::TooMany { count }) => {
                Err(Refused::Refusal(Refusal::TooMany { count }))
            }
            Err(PoolFault::Memory) => Err(Refused::Memory),
        }
    }

    // All candidates: first those of the indexes, then those of the database. More candidates than
    // a pool can have are an error.
    fn candidates(&self, alloc: Global) -> Result<Pool<'_>, PoolFault>
        // The pool has all candidates of the inputs, if they are not too many.
        ensures ok { IfOk result (λ pool. pool ≡ candidates_of (inputs_seen self.now)) }
        // The pool has no more candidates than it may have.
        ensures fits { IfOk result (λ pool. length pool ≤ MOST_CANDIDATES) }
        // The errors are too many candidates, with the number that there would be, and out of
        // memory.
        ensures fault { IfErr result (λ fault.
            IsPoolFault fault (length (candidates_of (inputs_seen self.now)))) }
    {
        let mut pool = Pool::new(alloc);
        self.add_candidates(&mut pool)?;
        Ok(pool)
    }

    // Adds all candidates to an empty pool.
    fn add_candidates<'a>(&'a self, pool: &mut Pool<'a>) -> Result<(), PoolFault>
        // The pool has no candidate yet.
        requires { pool.old ≡ [] }
        // The pool has all candidates of the inputs then, if they are not too many.
        ensures ok { OnOk result (pool.new ≡ candidates_of (inputs_seen self.entry.now)) }
        // The pool has no more candidates than it may have.
        ensures fits { OnOk result (length pool.new ≤ MOST_CANDIDATES) }
        // The errors are too many candidates, with the number that there would be, and out of
        // memory.
        ensures fault { IfErr result (λ fault.
            IsPoolFault fault (length (candidates_of (inputs_seen self.entry.now)))) }
    {
        self.add_indexes(pool)?;
        self.root.database.add_to(pool)
    }

    // Adds the packages of each index to an empty pool; repositories count from 1.
    fn add_indexes<'a>(&'a self, pool: &mut Pool<'a>) -> Result<(), PoolFault>
        // The pool has no candidate yet.
        requires { pool.old ≡ [] }
        // The pool has no more candidates than it may have.
        ensures fits { OnOk result (length pool.new ≤ MOST_CANDIDATES) }
        // The pool has the packages of each index then, repository by repository.
        ensures ok { OnOk result (pool.new
            ≡ candidates_of_repositories_from 1 self.entry.now.root.repositories
            (indexes_seen self.entry.now.indexes)) }
        // The errors are too many candidates, with the number that there would be, and out of
        // memory.
        ensures fault { IfErr result (λ fault. IsPoolFault fault (length
            (candidates_of_repositories_from 1 self.entry.now.root.repositories
            (indexes_seen self.entry.now.indexes)))) }
    {
        for i in 0..self.indexes.len() {
            let index = self.indexes.open(i);
            pool.add_index(index, i as u64 + 1, self.root.repositories.tag(i))?;
        }
        Ok(())
    }
}
