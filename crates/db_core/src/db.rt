//! The installed database as it is read.
//! The rules are in `docs/formats.md`, "Tests of a container" (which file is read), and "Schemas",
//! tables 7 and 9 (its contents). What `find` and `owner_of` return is in `docs/DECISIONS.md`, "The
//! installed database", and `docs/commands.md`, "`info`".
ghost use Rattle.pkg_core.specs.adb_fields.ListValue.{list_value};
ghost use Rattle.pkg_core.specs.adb_fields.Repeated.{entries_of_field_at_index, list_of};
ghost use Rattle.pkg_core.specs.adb_schema.ReadFaults.{IsReadFault};
ghost use Rattle.pkg_core.specs.adb_schema.Soundness.{container_fault_except_contents, payload_fault, payload_in, root_value_of_payload};
ghost use Rattle.pkg_core.specs.adb_schema.Views.{idb_value, package_value};
ghost use Rattle.adb_view.specs.FieldIndexes.{IDB_PACKAGES_INDEX};
ghost use Rattle.adb_view.specs.Values.{count_of, entries_in, entry_at_index, is_sound};
ghost use Rattle.adb_view.specs.declared.tables.Kind.TheVariants as Kinds;
ghost use Rattle.adb_view.specs.declared.tables.Which.{Which};
ghost use Rattle.adb_view.specs.declared.tables.Which.TheVariants as Tables;
ghost use Rattle.adb_view.specs.Adb.{payload_of};
ghost use Rattle.adb_view.specs.Head.{payload_head_fault, root_word_of_payload};
ghost use Rattle.db_core.specs.EntrySeen.{payload_of_database};
ghost use Rattle.db_core.specs.NamePlaces.{placed_names_in_order};
ghost use Rattle.db_core.specs.NameSeen.{name_seen};
ghost use Rattle.db_core.specs.Packages.{is_package_named, lists_only_valid_names, lists_no_reserved_path, lists_path, packages_of_database_value};
ghost use Rattle.db_core.specs.SoundMembers.{IsSoundDatabaseIfAny};
ghost use Rattle.std.specs.List.{list_all, position_from};
ghost use Rattle.std.specs.Prelude.{◌≡◌, ◌<◌, ◌^◌, ◌==◌, true, false, [], All, Some, None, IfSome, length, map, option_map, slice_get, IfOk, IfErr, is_none};

use crate::listed_paths::is_path_listed;
use crate::name_places::{NamePlace, place_of, sorted_names};
use adb_block::Blocks;
use adb_view::{Adb, values_of_few_visits_have_no_fault};
use base_core::Name;
use pkg_core::{
    IdbView, List, PackageView, ReadFault, View, Which, bytes_are_small,
    no_text_is_bad_where_each_keeps_its_rule, read_adb, tested_payloads_hold_sound_values,
};
use std::alloc::{AllocError, Global};

/// The packages of an installed database, in its order. All data are lent from the file's bytes.
/// The places of the packages are also kept in byte order of names, for searches.
#[derive(Drop)]
pub struct Db<'a> {
    /// The view of the database; none if there is no file, and so no package.
    pub(crate) idb: Option<IdbView<'a>>,
    /// The names of the packages in byte order, each with the place of its package.
    pub(crate) names: Vec<NamePlace<'a>>,
    // The names are those of the packages, in byte order.
    ghost by_name: { map name_seen names.items
        ≡ placed_names_in_order (packages_of_database_value (option_map idb_value idb)) },
    // Each path that a package lists is a name.
    ghost named: { list_all lists_only_valid_names (packages_of_database_value
        (option_map idb_value idb)) ≡ true },
    // No path that a package lists is reserved.
    ghost free: { list_all lists_no_reserved_path (packages_of_database_value
        (option_map idb_value idb)) ≡ true },
    // The database passed all tests: its value is sound.
    ghost sound: { ∥ IsSoundDatabaseIfAny (option_map idb_value idb) ∥₁ },
}

impl<'a> Db<'a> {
    ghost use Rattle.pkg_core.specs.adb_schema.Reserved.{is_reserved};
    ghost use Rattle.base_core.specs.Name.{IsName};
    ghost use Rattle.db_core.specs.Members.{listings_of_members, members_of_kept};
    ghost use Rattle.db_core.specs.Seen.{packages_of};

    /// A database without packages.
    pub fn empty(alloc: Global) -> Db<'a>
        ensures { packages_of result ≡ [] }
    {
        Db {
            idb: None,
            names: Vec::new(alloc),
        }
    }

    /// Reads a database, and tests its whole file. The memory for each package is a few words.
    ///
    /// # Errors
    ///
    /// `Bad` with the cause of the first test that fails, or `Memory`.
    pub fn read(alloc: Global, bytes: &'a [u8]) -> Result<Db<'a>, ReadFault>
        // The error is the first failed test, or out of memory.
        ensures bad { IfErr result
            (λ fault. IsReadFault fault
            (container_fault_except_contents Tables.Idb bytes.entry.now)) }
        // On Ok, the file passes all tests of a database.
        ensures sound { IfOk result
            (λ _. container_fault_except_contents Tables.Idb bytes.entry.now ≡ None) }
        // On Ok, the packages are those of the database in the file.
        ensures packages { IfOk result (λ db. packages_of db
            ≡ entries_of_field_at_index IDB_PACKAGES_INDEX (root_value_of_payload Tables.Idb
            (payload_in bytes.entry.now))) }
    {
        read_adb(alloc, bytes, Which::Idb)?;
        let db = Db::open(alloc, payload_in(bytes))?;
        Ok(db)
    }

    /// The database in a payload that passes all tests; the tests are not repeated. The memory for
    /// each package is a few words.
    ///
    /// # Errors
    ///
    /// Out of memory.
    pub fn open(alloc: Global, payload: &'a [u8]) -> Result<Db<'a>, AllocError>
        // The payload passes all tests of a database.
        requires { payload_fault Tables.Idb payload.now ≡ None }
        // On Ok, the packages are those of the value at the root of the payload.
        ensures { IfOk result (λ db. packages_of db
            ≡ entries_of_field_at_index IDB_PACKAGES_INDEX
            (root_value_of_payload Tables.Idb payload.entry.now)) }
    {
        // Laws that the proof needs; they compute nothing.
        no_text_is_bad_where_each_keeps_its_rule();
        bytes_are_small(payload);
        tested_payloads_hold_sound_values();
        let idb = open_idb(payload);
        let names = sorted_names(alloc, &idb.packages())?;
        Ok(Db {
            idb: Some(idb),
            names,
        })
    }

    /// How many packages the database has.
    pub fn len(&self) -> usize
        // The result is the number of packages.
        ensures value { result ≡ length (packages_of self.now) }
        // There are less than 2^32 packages.
        ensures small { result < 2 ^ 32 }
    {
        match &self.idb {
            Some(idb) => idb.packages().len(),
            None => 0,
        }
    }

    /// Whether the database has no package.
    pub fn is_empty(&self) -> bool
        ensures { result ≡ (length (packages_of self.now) == 0) }
    {
        self.len() == 0
    }

    /// The package at a place, counted from 0.
    pub fn package(&self, i: usize) -> PackageView<'a>
        // The index is that of one of the packages.
        requires { i < length (packages_of self.now) }
        ensures { slice_get (packages_of self.now) i ≡ Some (package_value result) }
    {
        package_of_database(&self.idb, i)
    }

    /// The place of the first package with this name, counted from 0, found by binary search. None
    /// is returned exactly if no package has the name.
    pub fn find(&self, name: &[u8]) -> Option<usize>
        // The result is the index of the first package with this name, or none.
        ensures found { result
            ≡ position_from (is_package_named name.now) 0 (packages_of self.now) }
        // A place that is returned is that of a package.
        ensures within { IfSome result (λ i. i < length (packages_of self.now)) }
    {
        place_of(&self.names, name)
    }

    /// The place of the first package that lists this path, counted from 0. None is returned
    /// exactly if no package lists the path. All files that the database lists may be searched.
    pub fn owner_of(&self, path: &Name) -> Option<usize>
        // The result is the index of the first package that lists this path, or none.
        ensures found { result ≡ position_from (lists_path path.now) 0 (packages_of self.now) }
        // A place that is returned is that of a package.
        ensures within { IfSome result (λ i. i < length (packages_of self.now)) }
    {
        match &self.idb {
            Some(idb) => find_lister(&idb.packages(), path.as_bytes()),
            None => None,
        }
    }

    /// Each path that a package of the database lists is a name, so that a file may be removed
    /// under it.
    pub fn listed_paths_are_names(&self)
        // The path of each file that a package lists is a name.
        ensures { All (λ l. IsName l.path)
            (listings_of_members (members_of_kept (packages_of self.now))) }
    {}

    /// No path that a package of the database lists is reserved: so a change never removes one of
    /// the package manager's own files as a package's file.
    pub fn no_listed_path_is_reserved(&self)
        // The path of no file that a package lists is reserved.
        ensures { All (λ l. is_reserved l.path ≡ false)
            (listings_of_members (members_of_kept (packages_of self.now))) }
    {}
}

/// The package at a place of a database, counted from 0, which is read from the database's payload.
pub(crate) fn package_of_database<'a>(idb: &Option<IdbView<'a>>, i: usize) -> PackageView<'a>
    // The index is that of one of the packages.
    requires { i < length (packages_of_database_value (option_map idb_value idb.now)) }
    // The result is the package at this index.
    ensures value { slice_get (packages_of_database_value (option_map idb_value idb.now)) i
        ≡ Some (package_value result) }
    // The package is in the payload of the database.
    ensures lent { payload_of result.adb ≡ payload_of_database idb.now }
{
    match idb {
        Some(idb) => idb.package_at(i),
        // A database without a view has no package.
        None => unreachable!(),
    }
}

/// The payload of the first block of a file that passed its tests.
#[tactic(auto, unfolding(adb_schema::specs::Soundness::container_fault_except_contents, adb_schema::specs::Soundness::payload_in))]
pub fn payload_in(file: &[u8]) -> &[u8]
    // The file passes all tests of a container, for some table.
    requires { (which : Which) × (container_fault_except_contents which file.now ≡ None) }
    ensures { result.now ≡ payload_in file.entry.now }
{
    // The file passes all tests, so it has a first block.
    let Ok(mut blocks) = Blocks::new(file) else {
        unreachable!()
    };
    match blocks.next() {
        Ok(Some(block)) => block.payload,
        _ => unreachable!(),
    }
}

/// A view of the database in a payload that passes all tests; the tests are not repeated.
pub fn open_idb(payload: &[u8]) -> IdbView<'_>
    // The payload passes all tests of a database.
    requires { payload_fault Tables.Idb payload.now ≡ None }
    ensures { idb_value result ≡ root_value_of_payload Tables.Idb payload.now }
{
    // A law that the proof needs; it computes nothing.
    values_of_few_visits_have_no_fault();
    open_root(payload)
}

/// The view of the database in a payload whose head and root pass their tests.
fn open_root(payload: &[u8]) -> IdbView<'_>
    // The head of the payload passes its tests.
    requires head { is_none (payload_head_fault payload.now) ≡ true }
    // The root of the payload has the plain value of a database.
    requires sound { is_sound payload.now (Kinds.Obj Tables.Idb)
        (root_word_of_payload payload.now) ≡ true }
    ensures { idb_value result ≡ root_value_of_payload Tables.Idb payload.now }
{
    // The head passes its test, by the contract.
    let Ok(adb) = Adb::new(payload) else {
        unreachable!()
    };
    IdbView::of(adb, adb.root())
}

/// The package at a place of a list, counted from 0.
fn package_at<'a>(packages: &List<'a, PackageView<'a>>, i: usize) -> PackageView<'a>
    // The index is that of an entry of the list.
    requires { i < count_of (entries_in (list_value packages.now)) }
    ensures { package_value result ≡ entry_at_index (list_value packages.now) i }
{
    // By the contract this never happens. `len` says that a list has less than 2^32 entries, so
    // `i + 1` does not overflow.
    if i >= packages.len() {
        unreachable!();
    }
    // `get` counts from 1.
    packages.get(i + 1)
}

/// Whether the package at a place of a list, counted from 0, lists this path.
fn is_lister<'a>(packages: &List<'a, PackageView<'a>>, i: usize, path: &[u8]) -> bool
    // The index is that of an entry of the list.
    requires { i < count_of (entries_in (list_value packages.now)) }
    ensures { result ≡ lists_path path.now (entry_at_index (list_value packages.now) i) }
{
    let package = package_at(packages, i);
    is_path_listed(&package.paths(), path)
}

/// The place in a list, counted from 0, of the first package that lists this path, if one does.
fn find_lister<'a>(packages: &List<'a, PackageView<'a>>, path: &[u8]) -> Option<usize>
    // The result is the index of the first package that lists this path, or none.
    ensures found { result ≡ position_from (lists_path path.now) 0
        (list_of (entries_in (list_value packages.now))) }
    // A place that is returned is that of an entry of the list.
    ensures within { IfSome result (λ i. i < count_of (entries_in (list_value packages.now))) }
{
    for i in 0..packages.len() {
        if is_lister(packages, i, path) {
            return Some(i);
        }
    }
    None
}
