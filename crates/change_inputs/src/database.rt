//! The database of a root, tested and kept in memory: its file, a text database that is converted,
//! or a new one. Used by `Loaded` and `Installed`. The rules are in `docs/commands.md`, "`add` and
//! `del`" (part "What is read") and "A root of version 2"; the tests in `docs/formats.md`, "Tests
//! of a container".
ghost use Rattle.db_core.specs.adb_fields.ListValue.{list_value};
ghost use Rattle.db_core.specs.adb_fields.Repeated.{list_of};
ghost use Rattle.db_core.specs.adb_schema.Soundness.{container_fault_except_contents, payload_fault, payload_in, root_value_of_payload};
ghost use Rattle.db_core.specs.adb_schema.Views.{idb_value};
ghost use Rattle.adb_view.specs.Values.{entries_in};
ghost use Rattle.adb_view.specs.declared.tables.Which.TheVariants as Tables;
ghost use Rattle.base_core.specs.Read.{bytes_in};
ghost use Rattle.change_inputs.specs.Answers.{Agrees};
ghost use Rattle.change_inputs.specs.Candidates.{with_all_installed};
ghost use Rattle.change_inputs.specs.Database.{container_database, empty_database_if_allowed, root_database, text_database};
ghost use Rattle.db_core.specs.Seen.{packages_of};
ghost use Rattle.pool_core.specs.candidate_core.Values.{IsPoolFault};
ghost use Rattle.pool_core.specs.candidate_core.declared.candidate_list.TheConstants.{MOST_CANDIDATES};
ghost use Rattle.std.specs.Option.{option_copied};
ghost use Rattle.std.specs.Prelude.{◌≡◌, ◌≤◌, true, None, Ok, is_none, IfErr, IfOk, OnOk, length};
ghost use Rattle.v2_core.specs.Payload.{IsV2Fault, payload_of_text};

use crate::root::{Refused, test_file};
use db_core::{Db, IdbView, List, PackageView, ReadFault, Which, open_idb, payload_in};
use pool_core::{Pool, PoolFault};
use report_core::Refusal;
use std::alloc::{AllocError, Global};
use v2_core::{V2Fault, read_v2};

/// The bytes of a database's file, which passed all tests.
#[derive(Drop)]
pub(crate) struct DatabaseContainer {
    /// The bytes of the whole file.
    pub(crate) file: Vec<u8>,
    // The file passes each test of a database, except those of contents of files.
    ghost passed: { is_none (container_fault_except_contents Tables.Idb file.items) ≡ true },
    // The payload of the file passes each test of the payload of a database.
    ghost sound: { is_none (payload_fault Tables.Idb (payload_in file.items)) ≡ true },
}

/// The payload of a text database, which passed all tests.
#[derive(Drop)]
pub(crate) struct DatabasePayload {
    /// The bytes of the payload to which the text was converted. They are in memory only, in no
    /// file.
    pub(crate) payload: Vec<u8>,
    // The payload passes each test of the payload of a database.
    ghost sound: { is_none (payload_fault Tables.Idb payload.items) ≡ true },
}

/// The database of a root.
#[derive(Drop)]
pub(crate) enum DatabaseFile {
    /// The root has a database file, which has these bytes.
    Container(DatabaseContainer),
    /// The root has no database file. Its text database was converted to this payload.
    Payload(DatabasePayload),
    /// The root has neither a database file nor a text database. The command begins a database
    /// without packages.
    New,
}

impl DatabaseFile {
    ghost use Rattle.change_inputs.specs.Seen.{database_seen};

    /// The database of a root, given the database's file and the text database, each None if
    /// absent. The text is used only if there is no database file. If both are absent, `may_begin`
    /// says whether the command may begin a database without packages.
    ///
    /// # Errors
    ///
    /// `NoDatabase`; `DatabaseBad` with the cause of the first test that fails; for a text
    /// `DatabaseBad` with its first bad line, `ResultTooLarge` if its payload exceeds a limit of
    /// the writer, or `DatabaseBad` with the first test of a database that it fails. Or `Memory`.
    pub(crate) fn of(
        alloc: Global,
        may_begin: bool,
        file: Option<Vec<u8>>,
        text: Option<Vec<u8>>,
    ) -> Result<DatabaseFile, Refused>
        // The result is that of the definition: the database, or the refusal; or out of memory.
        ensures { Agrees database_seen result
            (root_database may_begin (bytes_in file) (bytes_in text)) }
    {
        match file {
            Some(file) => DatabaseFile::in_container(alloc, file),
            None => DatabaseFile::taken_over(alloc, may_begin, text),
        }
    }

    // The database in the container `file`. Its bytes are tested as a database, and kept.
    fn in_container(alloc: Global, file: Vec<u8>) -> Result<DatabaseFile, Refused>
        // The result is that of the definition, or out of memory.
        ensures { Agrees database_seen result (container_database file.items) }
    {
        match test_file(alloc, &file, Which::Idb) {
            Ok(()) => Ok(DatabaseFile::Container(DatabaseContainer { file })),
            Err(ReadFault::Bad(cause)) => Err(Refused::Refusal(Refusal::DatabaseBad { cause })),
            Err(ReadFault::Memory) => Err(Refused::Memory),
        }
    }

    // The database of a root without a database file: the converted text database if there is one,
    // and otherwise a new database, if `may_begin` is true.
    fn taken_over(
        alloc: Global,
        may_begin: bool,
        text: Option<Vec<u8>>,
    ) -> Result<DatabaseFile, Refused>
        // The result is that of the definition, or out of memory.
        ensures { Agrees database_seen result (root_database may_begin None (bytes_in text)) }
    {
        match text {
            Some(text) => DatabaseFile::in_text(alloc, &text),
            None => DatabaseFile::begun(may_begin),
        }
    }

    // The database to which the text database `text` is converted. The converted payload is tested
    // like that of any other database.
    fn in_text(alloc: Global, text: &[u8]) -> Result<DatabaseFile, Refused>
        // The result is that of the definition, or out of memory.
        ensures { Agrees database_seen result (text_database text.now) }
    {
        match payload_of_text(alloc, text) {
            Ok(own) => Ok(DatabaseFile::Payload(own)),
            Err(V2Fault::Bad(cause)) => Err(Refused::Refusal(Refusal::DatabaseBad { cause })),
            Err(V2Fault::TooLarge { bytes, values }) => {
                Err(Refused::Refusal(Refusal::ResultTooLarge { bytes, values }))
            }
            Err(V2Fault::Memory) => Err(Refused::Memory),
        }
    }

    // A database without packages, if `may_begin` is true; otherwise the refusal `NoDatabase`.
    fn begun(may_begin: bool) -> Result<DatabaseFile, Refused>
        ensures { Agrees database_seen result (empty_database_if_allowed may_begin) }
    {
        if !may_begin {
            return Err(Refused::Refusal(Refusal::NoDatabase));
        }
        Ok(DatabaseFile::New)
    }

    /// The packages of the database, opened over the bytes that it keeps.
    pub(crate) fn open(&self, alloc: Global) -> Result<Db<'_>, AllocError>
        ensures { IfOk result (λ db. packages_of db ≡ (database_seen self.now).packages) }
    {
        match self {
            DatabaseFile::Container(own) => Db::open(alloc, own.payload()),
            DatabaseFile::Payload(own) => Db::open(alloc, &own.payload),
            DatabaseFile::New => Ok(Db::empty(alloc)),
        }
    }

    /// Adds each installed package to a pool that already has the packages of the indexes.
    ///
    /// # Errors
    ///
    /// `TooMany` if there are more candidates than a pool can have, or `Memory`.
    pub(crate) fn add_to<'a>(&'a self, pool: &mut Pool<'a>) -> Result<(), PoolFault>
        // The pool has no more candidates than it may have.
        requires { length pool.old ≤ MOST_CANDIDATES }
        // The pool still has no more candidates than it may have.
        ensures fits { OnOk result (length pool.new ≤ MOST_CANDIDATES) }
        // The installed packages are then in the pool: each is marked or appended as a candidate.
        ensures ok { OnOk result (pool.new
            ≡ with_all_installed pool.old (database_seen self.entry.now).packages) }
        // The errors are too many candidates, with the number that there would be, and out of
        // memory.
        ensures fault { IfErr result (λ fault. IsPoolFault fault (length
            (with_all_installed pool.old (database_seen self.entry.now).packages))) }
    {
        match self {
            DatabaseFile::Container(own) => add_packages(pool, &own.idb().packages()),
            DatabaseFile::Payload(own) => add_packages(pool, &own.idb().packages()),
            DatabaseFile::New => Ok(()),
        }
    }

    /// The bytes of the database's file, if there is one. A change compares the new database with
    /// them.
    pub(crate) fn file(&self) -> Option<&[u8]>
        ensures { option_copied result ≡ (database_seen self.now).file }
    {
        match self {
            DatabaseFile::Container(own) => Some(&own.file),
            DatabaseFile::Payload(_) | DatabaseFile::New => None,
        }
    }

    /// Whether the packages are from a text database, whose file a change then removes.
    pub(crate) fn is_from_text(&self) -> bool
        ensures { result ≡ (database_seen self.now).from_text }
    {
        match self {
            DatabaseFile::Payload(_) => true,
            DatabaseFile::Container(_) | DatabaseFile::New => false,
        }
    }
}

impl DatabaseContainer {
    // The payload of the file's first block.
    fn payload(&self) -> &[u8]
        ensures { result.now ≡ payload_in self.now.file.items }
    {
        payload_in(&self.file)
    }

    // The database in the file, opened.
    fn idb(&self) -> IdbView<'_>
        ensures { idb_value result
            ≡ root_value_of_payload Tables.Idb (payload_in self.now.file.items) }
    {
        open_idb(self.payload())
    }
}

impl DatabasePayload {
    // The database in the payload, opened.
    fn idb(&self) -> IdbView<'_>
        ensures { idb_value result ≡ root_value_of_payload Tables.Idb self.now.payload.items }
    {
        open_idb(&self.payload)
    }
}

// Adds each installed package to a pool. The entries of `packages` are numbered from 1.
fn add_packages<'a>(
    pool: &mut Pool<'a>,
    packages: &List<'a, PackageView<'a>>,
) -> Result<(), PoolFault>
    // The pool has no more candidates than it may have.
    requires { length pool.old ≤ MOST_CANDIDATES }
    // The pool still has no more candidates than it may have.
    ensures fits { OnOk result (length pool.new ≤ MOST_CANDIDATES) }
    // The pool has these packages then: each is marked as installed, or appended as a candidate.
    ensures ok { OnOk result (pool.new
        ≡ with_all_installed pool.old (list_of (entries_in (list_value packages.now)))) }
    // The only errors are too many candidates, with the number that there would be, and no memory.
    ensures fault { IfErr result (λ fault. IsPoolFault fault (length
        (with_all_installed pool.old (list_of (entries_in (list_value packages.now)))))) }
{
    for i in 0..packages.len() {
        let package = packages.get(i + 1);
        pool.add_installed(package.info())?;
    }
    Ok(())
}

// The payload to which a text database is converted, after its tests; or the first fault of the
// text.
fn payload_of_text(alloc: Global, text: &[u8]) -> Result<DatabasePayload, V2Fault>
    // The payload is the one that the definition gives for this text.
    ensures ok { IfOk result (λ own. payload_of_text text.now ≡ Ok own.payload.items) }
    // The fault is that of the definition, or out of memory.
    ensures err { IfErr result (λ fault. IsV2Fault fault (payload_of_text text.now)) }
{
    let payload = read_v2(alloc, text)?;
    Ok(DatabasePayload { payload })
}
