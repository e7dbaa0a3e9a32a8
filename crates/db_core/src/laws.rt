//! Laws: what a written database contains when it is read, and that a change of nothing leaves a
//! database as it is.
//! The rules are in `docs/formats.md`, "The database after a change", and in `docs/DECISIONS.md`,
//! "The installed database" (the conditions on owned files).
ghost use Rattle.adb_copy.specs.Zeros.{without_zeros};
ghost use Rattle.adb_copy.specs.adb_fields.FirstPair.{IsIn};
ghost use Rattle.adb_copy.specs.adb_fields.Repeated.{entries_of_field_at_index, folders_in, list_of, name_of, paths_of_package_files};
ghost use Rattle.adb_sound.specs.adb_schema.Rules.{is_digest_length};
ghost use Rattle.adb_sound.specs.adb_schema.SoundContainers.{IsSoundContainerExceptContents};
ghost use Rattle.adb_sound.specs.adb_schema.Soundness.{payload_in, root_value_of_payload};
ghost use Rattle.adb_sound.specs.adb_schema.declared.read.TheConstants.{IDB_WORD};
ghost use Rattle.adb_sound.specs.Root.{IsValidRootValueOfTable};
ghost use Rattle.adb_view.specs.FieldIndexes.{DIR_ACL_INDEX, IDB_PACKAGES_INDEX, INFO_FILE_SIZE_INDEX, INFO_HASHES_INDEX, PACKAGE_INFO_INDEX, PACKAGE_REPLACES_PRIORITY_INDEX, PACKAGE_SCRIPTS_INDEX, PACKAGE_TRIGGERS_INDEX};
ghost use Rattle.adb_view.specs.Schema.{shape_of};
ghost use Rattle.adb_view.specs.Values.{entry_at_index, int_in};
ghost use Rattle.adb_view.specs.declared.tables.Kind.TheVariants as Kinds;
ghost use Rattle.adb_view.specs.declared.tables.Which.TheVariants as Tables;
ghost use Rattle.adb_view.specs.Plain.{Plain};
ghost use Rattle.adb_view.specs.Shaped.{HasShape};
ghost use Rattle.adb_sound.specs.adb_write.Canonical.{payload_or_counts_at_overflow};
ghost use Rattle.adb_sound.specs.adb_write.File.{file_of};
ghost use Rattle.db_core.specs.Members.{AreMembersInNameOrder, Member, member_of_added, listings_of_members, member_of_kept, members_of_kept};
ghost use Rattle.db_core.specs.Packages.{installed_id};
ghost use Rattle.db_core.specs.Information.{file_size_in_info_of_package};
ghost use Rattle.db_core.specs.NewDatabase.{database_of, database_value, package_in_new_database, packages_in_new_database};
ghost use Rattle.db_core.specs.OwnedListings.{owned_listings, owned_paths};
ghost use Rattle.db_core.specs.SoundMembers.{AreMembersOfSoundContainers, IsPackageOfSoundContainer, HaveOneOwnerPerPathAndNoneReserved};
ghost use Rattle.db_core.specs.Unchanged.{set_flags_of_all_listed_files};
ghost use Rattle.adb_sound.specs.pkg_core.Whole.{container_fault};
ghost use Rattle.std.specs.List.{flat_map};
ghost use Rattle.std.specs.Prelude.{◌≡◌, ◌≢◌, ◌<◌, ℕ, All, Bool, List, None, Ok, Some, length, map, true};

use adb_block::what_is_spelled_is_read;
use adb_copy::no_repeated_name_is_reported_if_there_is_none;
use adb_schema::{no_text_is_bad_where_each_keeps_its_rule, sound_containers_hold_sound_values};
use adb_sound::{a_container_of_a_good_value_is_sound, what_a_container_is_made_of_is_read_back};
use adb_write::{a_file_is_spelled, a_value_overflows_exactly_past_a_limit};

/// A law: if its value may be at the root of a container, a written database passes all tests, and
/// its packages are read back: those of the members, each with the files that it owns.
pub fn a_written_database_is_read_back()
    // The file passes the tests of a database.
    ensures database { (members : List Member) (flags : List Bool) (bytes : List ℕ)
        → IsValidRootValueOfTable Tables.Idb (database_value members flags)
        → database_of members flags ≡ Ok bytes
        → IsSoundContainerExceptContents Tables.Idb bytes }
    // The file passes all tests of a container of one of the four schemas.
    ensures sound { (members : List Member) (flags : List Bool) (bytes : List ℕ)
        → IsValidRootValueOfTable Tables.Idb (database_value members flags)
        → database_of members flags ≡ Ok bytes
        → container_fault bytes ≡ None }
    // The packages in the file are those of the new database.
    ensures packages { (members : List Member) (flags : List Bool) (bytes : List ℕ)
        → IsValidRootValueOfTable Tables.Idb (database_value members flags)
        → database_of members flags ≡ Ok bytes
        → entries_of_field_at_index IDB_PACKAGES_INDEX (root_value_of_payload Tables.Idb
        (payload_in bytes))
        ≡ list_of (packages_in_new_database members flags) }
{
    a_file_is_spelled();
    what_is_spelled_is_read();
    a_container_of_a_good_value_is_sound();
    what_a_container_is_made_of_is_read_back();
}

/// A law: the value of a written database may be at the root of a container under these conditions:
/// each kept member was read from a sound database, and each added one from a sound package with
/// its id; members are in order, each owned path has one owner, and none is reserved.
pub fn a_database_of_sound_packages_may_be_the_root()
    // `flags` has one flag for each file that members list, and `bytes` is the written file.
    ensures { (members : List Member) (flags : List Bool) (bytes : List ℕ)
        → AreMembersOfSoundContainers members → AreMembersInNameOrder members
        → HaveOneOwnerPerPathAndNoneReserved (owned_listings (listings_of_members members) flags)
        → database_of members flags ≡ Ok bytes
        → IsValidRootValueOfTable Tables.Idb (database_value members flags) }
{
    a_value_overflows_exactly_past_a_limit();
    no_text_is_bad_where_each_keeps_its_rule();
    no_repeated_name_is_reported_if_there_is_none();
}

/// A law: the contents of sound containers may be members: each package of a database as a kept
/// one, and the value of a package as an added one, with a digest as its id.
pub fn packages_of_sound_containers_may_be_members()
    // Each package of a sound database may be kept.
    ensures stays { (file : List ℕ) (pkg : Plain)
        → IsSoundContainerExceptContents Tables.Idb file → All (λ b. b < 256) (payload_in file)
        → IsIn pkg (entries_of_field_at_index IDB_PACKAGES_INDEX
        (root_value_of_payload Tables.Idb (payload_in file)))
        → IsPackageOfSoundContainer pkg None }
    // The package in a sound container may be added.
    ensures comes { (file id : List ℕ)
        → IsSoundContainerExceptContents Tables.Package file → All (λ b. b < 256) (payload_in file)
        → is_digest_length (length id) ≡ true
        → IsPackageOfSoundContainer (root_value_of_payload Tables.Package (payload_in file))
        (Some id) }
{
    sound_containers_hold_sound_values();
}

/// A law: the packages of a database after a change list exactly the files that members list and
/// own, in their order.
pub fn a_database_lists_the_owned_files()
    ensures { (members : List Member) (flags : List Bool)
        → flat_map paths_of_package_files (list_of (packages_in_new_database members flags))
        ≡ owned_paths members flags }
{}

/// A law: a database that is read and written with nothing changed has the same value, in which an
/// integer 0 is Null. If the value had no such integer, and its payload was canonical, it has the
/// same bytes.
pub fn a_database_without_changes_stays_the_same()
    // The written value is the read one without zeros.
    ensures value { (v : Plain) → HasShape (shape_of (Kinds.Obj Tables.Idb)) v
        → database_value (members_of_kept (entries_of_field_at_index IDB_PACKAGES_INDEX v))
        (set_flags_of_all_listed_files (members_of_kept
        (entries_of_field_at_index IDB_PACKAGES_INDEX v)))
        ≡ without_zeros v }
    // A value without zeros in its canonical payload is written as the same bytes.
    ensures bytes { (v : Plain) (payload : List ℕ) → HasShape (shape_of (Kinds.Obj Tables.Idb)) v
        → without_zeros v ≡ v → payload_or_counts_at_overflow v ≡ Ok payload
        → database_of (members_of_kept (entries_of_field_at_index IDB_PACKAGES_INDEX v))
        (set_flags_of_all_listed_files (members_of_kept
        (entries_of_field_at_index IDB_PACKAGES_INDEX v)))
        ≡ Ok (file_of IDB_WORD payload) }
{}

/// A law: in a new database the hash of an added package is its id, and a kept package keeps its
/// hash. The size of the package's file is unchanged, and so is each other field, in which an
/// integer 0 is Null.
pub fn a_package_keeps_its_information()
    // The hash of an added package is its id.
    ensures comes { (pkg : Plain) (id : List ℕ) (flags : List Bool)
        → installed_id (package_in_new_database (member_of_added pkg id) flags) ≡ id }
    // The hash of a kept package is unchanged.
    ensures stays { (pkg : Plain) (flags : List Bool)
        → installed_id (package_in_new_database (member_of_kept pkg) flags) ≡ installed_id pkg }
    // The size of the package's file is unchanged.
    ensures size { (m : Member) (flags : List Bool)
        → file_size_in_info_of_package (package_in_new_database m flags)
        ≡ file_size_in_info_of_package m.pkg }
    // The field with the index i is unchanged, but for zeros.
    ensures others { (m : Member) (flags : List Bool) (i : ℕ)
        → i ≢ INFO_HASHES_INDEX → i ≢ INFO_FILE_SIZE_INDEX
        → entry_at_index (entry_at_index (package_in_new_database m flags) PACKAGE_INFO_INDEX) i
        ≡ without_zeros (entry_at_index (entry_at_index m.pkg PACKAGE_INFO_INDEX) i) }
{}

/// A law: the folders of a package are kept in a new database, each with its name and its access
/// list, even if no file of them is owned.
pub fn a_package_keeps_its_folders()
    // The paths of the folders are unchanged.
    ensures names { (m : Member) (flags : List Bool)
        → map name_of (folders_in (package_in_new_database m flags))
        ≡ map name_of (folders_in m.pkg) }
    // The access lists of the folders are unchanged, but for zeros.
    ensures acls { (m : Member) (flags : List Bool)
        → map (λ folder. entry_at_index folder DIR_ACL_INDEX) (folders_in
        (package_in_new_database m flags))
        ≡ map (λ folder. without_zeros (entry_at_index folder DIR_ACL_INDEX)) (folders_in m.pkg) }
{}

/// A law: the entries of files in a new database are those of the files that members list and own,
/// in their order, each as its member has it, in which an integer 0 is Null.
pub fn a_database_keeps_the_entries_of_owned_files()
    ensures { (members : List Member) (flags : List Bool)
        → map (λ l. l.entry)
        (listings_of_members (members_of_kept (list_of (packages_in_new_database members flags))))
        ≡ map (λ l. without_zeros l.entry) (owned_listings (listings_of_members members) flags) }
{}

/// A law: a package in a new database keeps its scripts, its triggers and its priority in
/// replacing, in which an integer 0 is Null.
pub fn a_package_keeps_its_scripts_and_its_priority()
    // The scripts are unchanged, but for zeros.
    ensures scripts { (m : Member) (flags : List Bool)
        → entry_at_index (package_in_new_database m flags) PACKAGE_SCRIPTS_INDEX
        ≡ without_zeros (entry_at_index m.pkg PACKAGE_SCRIPTS_INDEX) }
    // The patterns of its trigger are unchanged, but for zeros.
    ensures triggers { (m : Member) (flags : List Bool)
        → entry_at_index (package_in_new_database m flags) PACKAGE_TRIGGERS_INDEX
        ≡ without_zeros (entry_at_index m.pkg PACKAGE_TRIGGERS_INDEX) }
    // The priority in replacing is unchanged.
    ensures priority { (m : Member) (flags : List Bool)
        → int_in (entry_at_index (package_in_new_database m flags) PACKAGE_REPLACES_PRIORITY_INDEX)
        ≡ int_in (entry_at_index m.pkg PACKAGE_REPLACES_PRIORITY_INDEX) }
{}

/// A law: a written database whose value may be at the root of a container is written again with
/// the same bytes: it is read back, and nothing changes.
pub fn a_written_database_is_written_again_alike()
    // `bytes` is the written file; in its second writing each listed file is owned.
    ensures { (members : List Member) (flags : List Bool) (bytes : List ℕ)
        → IsValidRootValueOfTable Tables.Idb (database_value members flags)
        → database_of members flags ≡ Ok bytes
        → database_of
        (members_of_kept (entries_of_field_at_index IDB_PACKAGES_INDEX
        (root_value_of_payload Tables.Idb
        (payload_in bytes))))
        (set_flags_of_all_listed_files
        (members_of_kept (entries_of_field_at_index IDB_PACKAGES_INDEX
        (root_value_of_payload Tables.Idb
        (payload_in bytes)))))
        ≡ Ok bytes }
{
    what_a_container_is_made_of_is_read_back();
}
