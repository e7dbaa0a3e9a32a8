//! The search for repeated names in a container, after the shape of its payload was tested.
//! `adb_schema` calls `repeated_names` when it reads a package, a database or a journal entry. The
//! rule is in `docs/formats.md`, "Names that stand twice".

ghost use Rattle.std.specs.Prelude.{◌↔◌, None, ◌≡◌, ◌+◌, ◌<◌, ◌^◌, [], ◌∷◌, true, Some, map, IfOk};
ghost use Rattle.std.specs.Option.{option_or};
ghost use Rattle.adb_view.specs.Adb.{payload_of};
ghost use Rattle.adb_view.specs.Entries.{array_entries};
ghost use Rattle.adb_view.specs.Values.{count_of, entries_in, entry_at_index, is_sound, kind_at, value_at};
ghost use Rattle.adb_fields.specs.Fields.{are_all_sound};
ghost use Rattle.adb_fields.specs.ListsOf.{AreRememberedListsOf};
ghost use Rattle.adb_view.specs.ShapedPayload.{shaped_value, table_of};
ghost use Rattle.adb_view.specs.FieldIndexes.{INTENT_REMOVALS_INDEX, INTENT_WRITES_INDEX};
ghost use Rattle.adb_fields.specs.Repeated.{fault_of_two_packages_sharing_name_or_path, place_in_causes_of_field_at_index, positions_of_file_repeated_in_a_folder, files_in, least_positions_of_name_twice_in_list, positions_of_folder_repeated_in_a_package, folders_in, fault_of_repeats_within_one_of_packages, name_of, positions_of_repeated_intent_name, positions_of_repeated_package_name, pair_of_packages_listing_one_path, repeated_cause, repeated_fault, least_positions_of_name_twice_in_one_list};
ghost use Rattle.adb_fields.specs.Once.{HasNoForbiddenRepeatedName};
ghost use Rattle.adb_view.specs.Plain.{Plain};
ghost use Rattle.adb_view.specs.declared.tables.Which.{Which};
ghost use Rattle.adb_fields.specs.NamedTexts.{plains_of_array_words};
ghost use Rattle.adb_view.specs.declared.tables.Kind.TheVariants as Kinds;
ghost use Rattle.adb_view.specs.declared.tables.Which.TheVariants as Tables;

use crate::known_lists::KnownLists;
use crate::name_lists::{add_texts, all_paths, package_names};
use crate::pairs::{Pair, least_pair_of_equal_names, lesser_pair};
use crate::reads::{field_word, objects_field, texts_field};
use adb_view::field_indexes::{
    DIR_FILES_INDEX, IDB_PACKAGES_INDEX, INTENT_REMOVALS_INDEX, INTENT_WRITES_INDEX,
    PACKAGE_PATHS_INDEX,
};
use adb_view::{Adb, Arr, Shaped, Val, Which, entry_word, values_of_few_visits_have_no_fault};
use base_core::Cause;
use std::alloc::{AllocError, Global};

/// The numbers by which causes name the fields whose texts must not repeat. Each is 100 times the
/// number of the table, plus the number of the field in this table, counted from 1.
mod field_numbers {
    // The name of a file (field 1 of table 4), also for a path that is in two packages.
    pub(super) const FILE_NAME: u16 = 401;

    // The name of a folder (field 1 of table 5).
    pub(super) const DIR_NAME: u16 = 501;

    // The packages of a database, by their names (field 1 of table 9).
    pub(super) const IDB_PACKAGES: u16 = 901;

    // The writes of a journal entry (field 2 of table 10), and its removals too.
    pub(super) const INTENT_WRITES: u16 = 1002;
}

/// Searches a container, whose shape was tested, for a repeated name. It returns the cause
/// `Repeated`, or None if and only if no name repeats. The kinds of names are searched in this
/// order, and each kind in all packages before the next kind:
///
/// 1. in a package and in a database, a folder that one package lists twice;
/// 2. in a package and in a database, a file that one folder lists twice;
/// 3. in a database, a name that two packages have;
/// 4. in a database, a path that two packages list, at the positions of the packages;
/// 5. in a journal entry, a name that occurs twice in its removals followed by its writes.
///
/// The first kind with a repeated name is reported, by the two positions of the name. If names
/// repeat at several pairs of positions, the pair with the smallest second position is reported. Of
/// the pairs with this second position, the one with the smallest first position is reported.
#[tactic(auto, unfolding(crate::specs::Repeated::repeated_fault))]
pub fn repeated_names(alloc: Global, shaped: &Shaped<'_>) -> Result<Option<Cause>, AllocError>
    // On Ok, the cause, or None, is that of the definition.
    ensures { IfOk result (λ cause. cause
        ≡ repeated_fault (table_of shaped.now) (shaped_value shaped.now)) }
{
    // A law that the proof needs; it has no effect at run time.
    values_of_few_visits_have_no_fault();
    let adb = shaped.adb();
    let root = adb.root();
    match shaped.which() {
        Which::Package => in_package(alloc, adb, root),
        Which::Idb => {
            let packages = objects_field(adb, Which::Idb, root, IDB_PACKAGES_INDEX, Which::Package);
            in_database(alloc, adb, packages)
        }
        Which::Intent => in_intent(alloc, adb, root),
        _ => Ok(None),
    }
}

/// The cause that reports a pair of positions, if there is one. `number` is the number in causes of
/// the field whose texts must not repeat.
fn repeated_cause(number: u16, pair: Option<Pair>) -> Option<Cause>
    ensures { result ≡ repeated_cause number pair }
{
    match pair {
        Some(Pair { first, second }) => Some(Cause::Repeated {
            place: number,
            first,
            second,
        }),
        None => None,
    }
}

/// The cause if a package has a repeated name: the first repeated folder, else the first repeated
/// file in a folder.
fn in_package(alloc: Global, adb: Adb<'_>, pkg: Val) -> Result<Option<Cause>, AllocError>
    // The word `pkg` has a plain value: a package.
    requires { is_sound (payload_of adb) (Kinds.Obj Tables.Package) pkg ≡ true }
    // On Ok, the cause, or None, is that of the definition.
    ensures { IfOk result (λ cause. cause
        ≡ fault_of_repeats_within_one_of_packages (value_at (payload_of adb.entry)
        (Kinds.Obj Tables.Package) pkg ∷ [])) }
{
    let mut folders = KnownLists::new(alloc, adb, Which::Dir);
    match repeated_cause(
        field_numbers::DIR_NAME,
        folder_twice_in_package(alloc, adb, &mut folders, pkg)?,
    ) {
        Some(cause) => Ok(Some(cause)),
        None => {
            let mut files = KnownLists::new(alloc, adb, Which::File);
            let pair = file_twice_in_package(alloc, adb, &mut files, pkg)?;
            Ok(repeated_cause(field_numbers::FILE_NAME, pair))
        }
    }
}

/// The cause if a database has a repeated name: in one of its packages, else in two of them.
fn in_database(alloc: Global, adb: Adb<'_>, packages: Arr<'_>) -> Result<Option<Cause>, AllocError>
    // The words in `packages` have plain values: packages.
    requires { are_all_sound (payload_of adb) (Kinds.Obj Tables.Package) (array_entries packages)
        ≡ true }
    // On Ok, the cause, or None, is that of the definition.
    ensures { IfOk result (λ cause. cause
        ≡ option_or
        (fault_of_repeats_within_one_of_packages (plains_of_array_words (payload_of adb.entry)
        (Kinds.Obj Tables.Package)
        (array_entries packages.entry)))
        (fault_of_two_packages_sharing_name_or_path (plains_of_array_words (payload_of adb.entry)
        (Kinds.Obj Tables.Package)
        (array_entries packages.entry)))) }
{
    match inside_packages(alloc, adb, packages)? {
        Some(cause) => Ok(Some(cause)),
        None => between_packages(alloc, adb, packages),
    }
}

/// The cause if one of the packages has a repeated name: the first repeated folder, else the first
/// repeated file in a folder.
fn inside_packages(
    alloc: Global,
    adb: Adb<'_>,
    packages: Arr<'_>,
) -> Result<Option<Cause>, AllocError>
    // The words in `packages` have plain values: packages.
    requires { are_all_sound (payload_of adb) (Kinds.Obj Tables.Package) (array_entries packages)
        ≡ true }
    // On Ok, the cause, or None, is that of the definition.
    ensures { IfOk result (λ cause. cause
        ≡ fault_of_repeats_within_one_of_packages (plains_of_array_words (payload_of adb.entry)
        (Kinds.Obj Tables.Package)
        (array_entries packages.entry))) }
{
    match repeated_cause(
        field_numbers::DIR_NAME,
        positions_of_folder_repeated_in_a_package(alloc, adb, packages)?,
    ) {
        Some(cause) => Ok(Some(cause)),
        None => Ok(repeated_cause(
            field_numbers::FILE_NAME,
            positions_of_file_repeated_in_a_folder(alloc, adb, packages)?,
        )),
    }
}

/// The cause if two packages have the same name, or else if two list the same path.
fn between_packages(
    alloc: Global,
    adb: Adb<'_>,
    packages: Arr<'_>,
) -> Result<Option<Cause>, AllocError>
    // The words in `packages` have plain values: packages.
    requires { are_all_sound (payload_of adb) (Kinds.Obj Tables.Package) (array_entries packages)
        ≡ true }
    // On Ok, the cause, or None, is that of the definition.
    ensures { IfOk result (λ cause. cause
        ≡ fault_of_two_packages_sharing_name_or_path (plains_of_array_words (payload_of adb.entry)
        (Kinds.Obj Tables.Package)
        (array_entries packages.entry))) }
{
    let mut names = package_names(alloc, adb, packages)?;
    match repeated_cause(
        field_numbers::IDB_PACKAGES,
        least_pair_of_equal_names(&mut names),
    ) {
        Some(cause) => Ok(Some(cause)),
        None => {
            let mut paths = all_paths(alloc, adb, packages)?;
            Ok(repeated_cause(
                field_numbers::FILE_NAME,
                least_pair_of_equal_names(&mut paths),
            ))
        }
    }
}

/// The cause if a journal entry has a name twice in its removals followed by its writes. The tests
/// of the shape ensure that these are fewer than 2^32.
fn in_intent(alloc: Global, adb: Adb<'_>, intent: Val) -> Result<Option<Cause>, AllocError>
    // The word `intent` has a plain value: an intent (journal entry).
    requires sound { is_sound (payload_of adb) (Kinds.Obj Tables.Intent) intent ≡ true }
    // The intent has fewer than 2^32 removals and writes together.
    requires few { count_of (entries_in
        (entry_at_index (value_at (payload_of adb)
        (Kinds.Obj Tables.Intent) intent) INTENT_REMOVALS_INDEX)) +
        count_of (entries_in
        (entry_at_index (value_at (payload_of adb)
        (Kinds.Obj Tables.Intent) intent) INTENT_WRITES_INDEX))
        < 2 ^ 32 }
    // On Ok, the cause, or None, is that of the definition.
    ensures { IfOk result (λ cause. cause
        ≡ repeated_cause (place_in_causes_of_field_at_index Tables.Intent INTENT_WRITES_INDEX)
        (positions_of_repeated_intent_name (value_at (payload_of adb.entry)
        (Kinds.Obj Tables.Intent) intent))) }
{
    let removals = texts_field(adb, Which::Intent, intent, INTENT_REMOVALS_INDEX);
    let writes = texts_field(adb, Which::Intent, intent, INTENT_WRITES_INDEX);
    let mut names = Vec::new(alloc);
    add_texts(&mut names, adb, removals)?;
    add_texts(&mut names, adb, writes)?;
    Ok(repeated_cause(
        field_numbers::INTENT_WRITES,
        least_pair_of_equal_names(&mut names),
    ))
}

/// The first pair of positions at which the package lists the same folder twice; None if there is
/// none. `lists` has the results of the lists that were searched before.
fn folder_twice_in_package(
    alloc: Global,
    adb: Adb<'_>,
    lists: &mut KnownLists<'_>,
    pkg: Val,
) -> Result<Option<Pair>, AllocError>
    // The word `pkg` has a plain value: a package.
    requires sound { is_sound (payload_of adb) (Kinds.Obj Tables.Package) pkg ≡ true }
    // `lists` remembers lists of objects of this table, in this payload.
    requires lists { AreRememberedListsOf adb Tables.Dir lists.old }
    // On Ok, the result is the first pair of positions of folders with one name, if there is one.
    ensures pair { IfOk result (λ pair. pair
        ≡ least_positions_of_name_twice_in_list (map name_of (folders_in
        (value_at (payload_of adb.entry) (Kinds.Obj Tables.Package) pkg)))) }
    // `lists` still remembers lists of objects of this table, in this payload.
    ensures lists { AreRememberedListsOf adb.entry Tables.Dir lists.new }
{
    lists.least_positions_of_name_twice_in_list(
        alloc,
        field_word(adb, Which::Package, pkg, PACKAGE_PATHS_INDEX),
    )
}

/// The first pair of positions at which a folder of the package lists the same file twice; None if
/// there is none.
#[tactic(auto, using(crate::proofs::FieldReads::entry_sound))]
fn file_twice_in_package(
    alloc: Global,
    adb: Adb<'_>,
    lists: &mut KnownLists<'_>,
    pkg: Val,
) -> Result<Option<Pair>, AllocError>
    // The word `pkg` has a plain value: a package.
    requires sound { is_sound (payload_of adb) (Kinds.Obj Tables.Package) pkg ≡ true }
    // `lists` remembers lists of objects of this table, in this payload.
    requires lists { AreRememberedListsOf adb Tables.File lists.old }
    // On Ok, the result is the first pair of positions of files with one name in one folder, if
    // there is one.
    ensures pair { IfOk result (λ pair. pair
        ≡ least_positions_of_name_twice_in_one_list (map (λ folder. map name_of (files_in folder))
        (folders_in (value_at (payload_of adb.entry) (Kinds.Obj Tables.Package) pkg)))) }
    // `lists` still remembers lists of objects of this table, in this payload.
    ensures lists { AreRememberedListsOf adb.entry Tables.File lists.new }
{
    let folders = objects_field(adb, Which::Package, pkg, PACKAGE_PATHS_INDEX, Which::Dir);
    let mut first = None;
    for i in 0..folders.len() {
        let folder = entry_word(folders, i);
        // `first` is the first pair of those found so far.
        first = lesser_pair(first, file_twice_in_folder(alloc, adb, lists, folder)?);
    }
    Ok(first)
}

/// The first pair of positions at which the folder lists the same file twice; None if there is
/// none.
fn file_twice_in_folder(
    alloc: Global,
    adb: Adb<'_>,
    lists: &mut KnownLists<'_>,
    folder: Val,
) -> Result<Option<Pair>, AllocError>
    // The word `folder` has a plain value: a folder.
    requires sound { is_sound (payload_of adb) (Kinds.Obj Tables.Dir) folder ≡ true }
    // `lists` remembers lists of objects of this table, in this payload.
    requires lists { AreRememberedListsOf adb Tables.File lists.old }
    // On Ok, the result is the first pair of positions of files with one name, if there is one.
    ensures pair { IfOk result (λ pair. pair
        ≡ least_positions_of_name_twice_in_list (map name_of (files_in
        (value_at (payload_of adb.entry) (Kinds.Obj Tables.Dir) folder)))) }
    // `lists` still remembers lists of objects of this table, in this payload.
    ensures lists { AreRememberedListsOf adb.entry Tables.File lists.new }
{
    lists.least_positions_of_name_twice_in_list(
        alloc,
        field_word(adb, Which::Dir, folder, DIR_FILES_INDEX),
    )
}

/// The first pair of positions at which one of the packages lists the same folder twice; None if
/// there is none.
#[tactic(auto, using(crate::proofs::FieldReads::entry_sound))]
fn positions_of_folder_repeated_in_a_package(
    alloc: Global,
    adb: Adb<'_>,
    packages: Arr<'_>,
) -> Result<Option<Pair>, AllocError>
    // The words in `packages` have plain values: packages.
    requires { are_all_sound (payload_of adb) (Kinds.Obj Tables.Package) (array_entries packages)
        ≡ true }
    // On Ok, the pair, or None, is that of the definition.
    ensures { IfOk result (λ pair. pair
        ≡ positions_of_folder_repeated_in_a_package (plains_of_array_words (payload_of adb.entry)
        (Kinds.Obj Tables.Package)
        (array_entries packages.entry))) }
{
    let mut lists = KnownLists::new(alloc, adb, Which::Dir);
    let mut first = None;
    for i in 0..packages.len() {
        let pkg = entry_word(packages, i);
        // `first` is the first pair of those found so far.
        first = lesser_pair(first, folder_twice_in_package(alloc, adb, &mut lists, pkg)?);
    }
    Ok(first)
}

/// The first pair of positions at which a folder of one of the packages lists the same file twice;
/// None if there is none.
#[tactic(auto, using(crate::proofs::FieldReads::entry_sound))]
fn positions_of_file_repeated_in_a_folder(
    alloc: Global,
    adb: Adb<'_>,
    packages: Arr<'_>,
) -> Result<Option<Pair>, AllocError>
    // The words in `packages` have plain values: packages.
    requires { are_all_sound (payload_of adb) (Kinds.Obj Tables.Package) (array_entries packages)
        ≡ true }
    // On Ok, the pair, or None, is that of the definition.
    ensures { IfOk result (λ pair. pair
        ≡ positions_of_file_repeated_in_a_folder (plains_of_array_words (payload_of adb.entry)
        (Kinds.Obj Tables.Package)
        (array_entries packages.entry))) }
{
    let mut lists = KnownLists::new(alloc, adb, Which::File);
    let mut first = None;
    for i in 0..packages.len() {
        let pkg = entry_word(packages, i);
        // `first` is the first pair of those found so far.
        first = lesser_pair(first, file_twice_in_package(alloc, adb, &mut lists, pkg)?);
    }
    Ok(first)
}

/// A law: no repeated name of a container is reported if and only if no name occurs twice that must
/// not (*HasNoForbiddenRepeatedName*).
pub fn no_repeated_name_is_reported_if_there_is_none()
    ensures { (which : Which) (value : Plain) → (repeated_fault which value ≡ None)
        ↔ HasNoForbiddenRepeatedName which value }
{}
