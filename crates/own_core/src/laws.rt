//! Laws: what follows from the definitions of this crate, for all changes and files. The rules are
//! in `docs/commands.md`, "What a change does with files"; the README of this crate lists the laws.

ghost use Rattle.std.specs.Prelude.{◌≡◌, ◌≢◌, ◌⊎◌, ◌↔◌, ℕ, Bool, true, false, List, [], None, Some, IsSome, map, is_some, All, Contains};
ghost use Rattle.file_guard.specs.adb_schema.Reserved.{is_reserved};
ghost use Rattle.file_guard.specs.adb_schema.Texts.{is_file_with_contents};
ghost use Rattle.base_core.specs.Files.{Files};
ghost use Rattle.base_core.specs.Listed.{AreSortedDistinctTexts};
ghost use Rattle.base_core.specs.Name.{IsName};
ghost use Rattle.file_owners.specs.db_core.Members.{Listing, Member, is_added, listings_of_members};
ghost use Rattle.file_guard.specs.AsListed.{has_target, is_as_listed};
ghost use Rattle.file_owners.specs.Owners.{owner_of_path};
ghost use Rattle.path_clashes.specs.Clash.{is_present_after_change};
ghost use Rattle.file_guard.specs.pkg_core.Contents.{Contents, expected_files_of_package};
ghost use Rattle.file_guard.specs.pkg_core.GoodContents.{MatchEachExpectedSizeAndKnownDigest, HaveValidDigestLengths};
ghost use Rattle.own_core.specs.Fate.{apk_new_name};
ghost use Rattle.own_core.specs.FileChange.{FileChange, added_owner_listing, is_listed_after_change, old_listings, owner_listing, was_listed};
ghost use Rattle.own_core.specs.FilesAfter.{DatabaseAndWorldAfter, files_after_change, database_name, is_left_over_modified_file_kept, is_left_over_and_not_written, is_removed, is_listing_written_under_name, listing_written_as_apk_new_beside, listing_bytes, text_database_name, world_name, listing_written_under_name};
ghost use Rattle.own_core.specs.NamesAfter.{is_released, name_change};
ghost use Rattle.own_core.specs.PlanLists.{FileWrite, paths_with_apk_new_file, file_writes_of, first_reserved_added_path_in_byte_order, kept_left_over_paths_of, removals_of};
ghost use Rattle.own_core.specs.Touched.{DiffersFromOldEntryIfAny, IsModifiedConfigFile, IsPlannedWrite, is_name_of_written_apk_new_file, is_added_path, is_old_or_new_database_or_world_name};

// ---- what is written

/// A law: an added package that owns a path lists the path. Each file that is written is one of an
/// added package that owns its path, and is written under this path or aside.
pub fn what_is_written_is_owned_by_an_added_package()
    // If `l` is the listing of a path by its owner, which is added, then `l` is one of the listings
    // of the members, of this path, by an added member, and this member owns the path.
    ensures owner { (change : FileChange) (path : List ℕ) (l : Listing)
        → added_owner_listing change path ≡ Some l
        → (l.path ≡ path) × (is_added l.member ≡ true)
        × Contains (listings_of_members change.members) l
        × (owner_of_path change.members path ≡ Some l.place) }
    // If the listed file `l` is written under a name, its member is added and owns its path. The
    // name is its path, or this path with `.apk-new`.
    ensures written { (change : FileChange) (files : Files) (name : List ℕ) (l : Listing)
        → listing_written_under_name change files name ≡ Some l
        → (added_owner_listing change l.path ≡ Some l)
        × ((name ≡ l.path) ⊎ (name ≡ apk_new_name l.path)) }
{}

/// A law: a file of an added package that owns its path is written under this path, unless the user
/// changed a protected configuration file there.
pub fn an_added_file_takes_its_path()
    // If `l` is the listing of the path by its added owner, and the path has no configuration file
    // that the user changed, `l` is written under the path.
    ensures { (change : FileChange) (files : Files) (path : List ℕ) (l : Listing)
        → added_owner_listing change path ≡ Some l
        → ((bytes : List ℕ) → IsModifiedConfigFile change files path bytes → ⊥)
        → listing_written_under_name change files path ≡ Some l }
{}

/// A law: when a package's file is written aside, as `PATH.apk-new` beside a configuration file
/// that the user changed. No package may list this name after the change. If a package listed the
/// path before, its entry must differ from the new one.
pub fn what_differs_is_written_beside_the_users_file()
    // Under these conditions the file is written aside, if `PATH.apk-new` is not too long for a
    // name.
    ensures beside { (change : FileChange) (files : Files) (path bytes : List ℕ) (l : Listing)
        → added_owner_listing change path ≡ Some l → IsModifiedConfigFile change files path bytes
        → DiffersFromOldEntryIfAny change path l.entry
        → IsName (apk_new_name path) → is_listed_after_change change (apk_new_name path) ≡ false
        → listing_written_as_apk_new_beside change files path ≡ Some l }
    // The file is written aside only under these conditions.
    ensures only { (change : FileChange) (files : Files) (path : List ℕ) (l : Listing)
        → listing_written_as_apk_new_beside change files path ≡ Some l
        → ((bytes : List ℕ) × IsModifiedConfigFile change files path bytes)
        × DiffersFromOldEntryIfAny change path l.entry
        × (is_listed_after_change change (apk_new_name path) ≡ false) }
    // A file that is written aside is written under the name `PATH.apk-new`.
    ensures located { (change : FileChange) (files : Files) (path : List ℕ) (l : Listing)
        → listing_written_as_apk_new_beside change files path ≡ Some l
        → listing_written_under_name change files (apk_new_name path) ≡ Some l }
{}

/// A law: the bytes that an added package has for a file are as its entry lists them. They are the
/// text of a link, or contents with the listed size and digest, or an empty file. The contents of
/// the package with the listing's member are those of a package in which no test fails.
pub fn the_files_of_an_added_package_are_as_listed()
    // `contents` has the contents of the member's package, which have the listed sizes and digests.
    // If the entry is that of an empty file, its digest must be that of no bytes.
    ensures { (contents : ℕ → List Contents) (members : List Member) (l : Listing)
        → Contains (listings_of_members members) l
        → HaveValidDigestLengths (expected_files_of_package l.member.pkg)
        → MatchEachExpectedSizeAndKnownDigest (expected_files_of_package l.member.pkg)
        (contents l.place)
        → (is_file_with_contents l.entry ≡ false → has_target l.entry ≡ false
        → is_as_listed l.entry [] ≡ true)
        → is_as_listed l.entry (listing_bytes contents l) ≡ true }
{}

/// A law: a name under which a listed file is written has the bytes of this file after the change.
pub fn what_is_written_takes_its_name()
    ensures { (change : FileChange) (bytes_of : Listing → List ℕ) (records : DatabaseAndWorldAfter)
        (files : Files) (name : List ℕ) (l : Listing)
        → listing_written_under_name change files name ≡ Some l
        → is_old_or_new_database_or_world_name records name ≡ false
        → files_after_change change bytes_of records files name ≡ Some (bytes_of l) }
{}

/// A law: no name of a written file is reserved, if no added package lists a reserved path. The
/// names of the database, of world and of a text database are reserved.
pub fn what_is_written_is_not_reserved()
    // If no added package lists a reserved path, a name under which a listed file is written is not
    // reserved.
    ensures written { (change : FileChange) (files : Files) (name : List ℕ) (l : Listing)
        → first_reserved_added_path_in_byte_order change.members ≡ None
        → listing_written_under_name change files name ≡ Some l
        → is_reserved name ≡ false }
    // The names of the database, of world and of a text database are reserved.
    ensures records { (records : DatabaseAndWorldAfter) (name : List ℕ) →
        is_old_or_new_database_or_world_name records name ≡ true
        → is_reserved name ≡ true }
{}

// ---- what is removed

/// A law: a package listed a removed path before the change, and no package lists it after. The
/// path has no file after the change.
pub fn what_is_removed_was_listed_before()
    // A removed path was listed before the change, and is not listed after it.
    ensures listed { (change : FileChange) (files : Files) (path : List ℕ)
        → is_removed change files path ≡ true
        → (was_listed change path ≡ true) × (is_listed_after_change change path ≡ false) }
    // A removed path has no file after the change.
    ensures gone { (change : FileChange) (bytes_of : Listing
        → List ℕ) (records : DatabaseAndWorldAfter)
        (files : Files) (path : List ℕ) → is_removed change files path ≡ true
        → is_old_or_new_database_or_world_name records path ≡ false
        → files_after_change change bytes_of records files path ≡ None }
{}

/// A law: no removed name is reserved, if the packages before the change list no reserved path.
pub fn what_is_removed_is_not_reserved()
    ensures { (change : FileChange) (files : Files) (path : List ℕ)
        → All (λ l. is_reserved l.path ≡ false) (old_listings change)
        → is_removed change files path ≡ true → is_reserved path ≡ false }
{}

/// A law on a path that was listed before the change, that no package lists after it, and at which
/// nothing is written. It is removed, unless it has a configuration file that the user changed and
/// `--purge` is not given.
pub fn what_is_left_over_is_removed_unless_it_is_the_users()
    // Such a path is removed, if it has no configuration file that the user changed, or if
    // `--purge` is given.
    ensures goes { (change : FileChange) (files : Files) (path : List ℕ)
        → is_left_over_and_not_written change files path ≡ true
        → ((bytes : List ℕ) → IsModifiedConfigFile change files path bytes → ⊥) ⊎ (change.purge
        ≡ true)
        → is_removed change files path ≡ true }
    // If the file at such a path is kept, it is configuration that the user changed, and `--purge`
    // is not given.
    ensures kept { (change : FileChange) (files : Files) (path : List ℕ)
        → is_left_over_modified_file_kept change files path ≡ true
        → ((bytes : List ℕ) × IsModifiedConfigFile change files path bytes) × (change.purge
        ≡ false) }
{}

// ---- what is unchanged

/// A law: the file at a path is unchanged if the path's owner is a kept package.
pub fn the_file_of_a_kept_package_is_not_touched()
    // The change neither writes nor removes the file at the path.
    ensures plan { (change : FileChange) (files : Files) (path : List ℕ) (l : Listing)
        → owner_listing change path ≡ Some l → is_added l.member ≡ false
        → (listing_written_under_name change files path ≡ None) × (is_removed change files path
        ≡ false) }
    // After the change the path has the same file as before, or none.
    ensures file { (change : FileChange) (bytes_of : Listing
        → List ℕ) (records : DatabaseAndWorldAfter)
        (files : Files) (path : List ℕ) (l : Listing)
        → owner_listing change path ≡ Some l → is_added l.member ≡ false
        → is_old_or_new_database_or_world_name records path ≡ false
        → files_after_change change bytes_of records files path ≡ files path }
{}

/// A law: a configuration file that the user changed keeps its bytes, unless `--purge` is given and
/// no package lists its path after the change. An `.apk-new` file of an earlier change is replaced
/// if a new one is written.
pub fn configuration_that_the_user_changed_is_kept()
    ensures { (change : FileChange) (bytes_of : Listing → List ℕ) (records : DatabaseAndWorldAfter)
        (files : Files) (path bytes : List ℕ)
        → (change.purge ≡ false) ⊎ (is_listed_after_change change path ≡ true)
        → IsModifiedConfigFile change files path bytes
        → is_name_of_written_apk_new_file change files path ≡ false
        → is_old_or_new_database_or_world_name records path ≡ false
        → files_after_change change bytes_of records files path ≡ Some bytes }
{}

/// A law: a user's file that is kept, although no package lists its path after the change, is
/// unchanged.
pub fn what_is_kept_is_unchanged()
    ensures { (change : FileChange) (bytes_of : Listing → List ℕ) (records : DatabaseAndWorldAfter)
        (files : Files) (path : List ℕ) → is_left_over_modified_file_kept change files path ≡ true
        → is_old_or_new_database_or_world_name records path ≡ false
        → files_after_change change bytes_of records files path ≡ files path }
{}

/// A law: a name that no package listed before, and that no added package lists, has the same file
/// after the change as before, unless an `.apk-new` file is written under it.
pub fn a_name_that_nobody_lists_is_not_touched()
    ensures { (change : FileChange) (bytes_of : Listing → List ℕ) (records : DatabaseAndWorldAfter)
        (files : Files) (name : List ℕ) → was_listed change name ≡ false
        → is_added_path change name ≡ false
        → is_name_of_written_apk_new_file change files name ≡ false
        → is_old_or_new_database_or_world_name records name ≡ false
        → files_after_change change bytes_of records files name ≡ files name }
{}

// ---- the names

/// A law: each name that has a file after a change is present after the change, as the search for
/// clashes defines this.
pub fn the_files_after_a_change_are_under_its_names()
    ensures { (change : FileChange) (bytes_of : Listing → List ℕ) (records : DatabaseAndWorldAfter)
        (files : Files) (name : List ℕ)
        → is_some (files_after_change change bytes_of records files name) ≡ true
        → is_present_after_change (name_change change files) files name ≡ true }
{}

/// A law: if a change does not release the name of a file, the name has a file after the change. If
/// the change releases the name and writes nothing there, the name has no file.
pub fn the_names_after_a_change_are_those_of_its_files()
    // A name that has a file before the change, and is not released, has a file after it.
    ensures located { (change : FileChange) (bytes_of : Listing
        → List ℕ) (records : DatabaseAndWorldAfter)
        (files : Files) (name : List ℕ)
        → is_some (files name) ≡ true → is_released change files name ≡ false
        → is_old_or_new_database_or_world_name records name ≡ false
        → is_some (files_after_change change bytes_of records files name) ≡ true }
    // A released name under which nothing is written has no file after the change.
    ensures gone { (change : FileChange) (bytes_of : Listing
        → List ℕ) (records : DatabaseAndWorldAfter)
        (files : Files) (name : List ℕ)
        → is_released change files name ≡ true → is_listing_written_under_name change files name
        ≡ false
        → is_old_or_new_database_or_world_name records name ≡ false
        → files_after_change change bytes_of records files name ≡ None }
{}

// ---- the database and world

/// A law: after a change the new database and the new world are under their names. An absent world
/// that would be empty stays absent, and a converted text database is absent.
pub fn the_records_of_a_change_are_under_their_names()
    // The new database is under its name.
    ensures database { (change : FileChange) (bytes_of : Listing → List ℕ)
        (records : DatabaseAndWorldAfter)
        (files : Files)
        → files_after_change change bytes_of records files database_name ≡ Some records.database }
    // The new world is under its name, unless it is empty and was absent.
    ensures world { (change : FileChange) (bytes_of : Listing
        → List ℕ) (records : DatabaseAndWorldAfter)
        (files : Files) → (records.world ≢ []) ⊎ IsSome (files world_name)
        → files_after_change change bytes_of records files world_name ≡ Some records.world }
    // An absent world that would be empty stays absent.
    ensures no_world { (change : FileChange) (bytes_of : Listing → List ℕ)
        (records : DatabaseAndWorldAfter)
        (files : Files) → records.world ≡ [] → files world_name ≡ None
        → files_after_change change bytes_of records files world_name ≡ None }
    // A converted text database is absent.
    ensures text { (change : FileChange) (bytes_of : Listing
        → List ℕ) (records : DatabaseAndWorldAfter)
        (files : Files) → records.takes_text_over ≡ true
        → files_after_change change bytes_of records files text_database_name ≡ None }
{}

// ---- the lists

/// A law: the lists of a plan have exactly the names that are written, removed and kept, and the
/// paths beside which an `.apk-new` file is written.
pub fn the_lists_of_a_plan_hold_just_its_names()
    // A write is in the list of writes exactly if a listed file is written under its name, and it
    // has the contents of this file.
    ensures writes { (change : FileChange) (files : Files) (write : FileWrite)
        → Contains (file_writes_of change files) write ↔ IsPlannedWrite change files write }
    // The list of writes has exactly the names under which a listed file is written.
    ensures written { (change : FileChange) (files : Files) (name : List ℕ)
        → Contains (map (λ write. write.name) (file_writes_of change files)) name
        ↔ (is_listing_written_under_name change files name ≡ true) }
    // The list of removals has exactly the removed paths.
    ensures removed { (change : FileChange) (files : Files) (path : List ℕ)
        → Contains (removals_of change files) path ↔ (is_removed change files path ≡ true) }
    // The list of kept paths has exactly the paths at which the user's modified file is kept
    // although no package lists them after the change.
    ensures kept { (change : FileChange) (files : Files) (path : List ℕ)
        → Contains (kept_left_over_paths_of change files) path
        ↔ (is_left_over_modified_file_kept change files path
        ≡ true) }
    // The list `paths_with_apk_new_file` has exactly the paths beside which an `.apk-new` file is
    // written.
    ensures aside { (change : FileChange) (files : Files) (path : List ℕ)
        → Contains (paths_with_apk_new_file change files) path
        ↔ (is_some (listing_written_as_apk_new_beside change files path) ≡ true) }
{}

/// A law: each list of a plan is in byte order of names, and no name is repeated.
pub fn the_lists_of_a_plan_rise()
    // The writes are in byte order of their names, each name once.
    ensures writes { (change : FileChange) (files : Files)
        → AreSortedDistinctTexts (map (λ write. write.name) (file_writes_of change files)) }
    // The removed paths are in byte order, each once.
    ensures removals { (change : FileChange) (files : Files)
        → AreSortedDistinctTexts (removals_of change files) }
    // The kept paths are in byte order, each once.
    ensures kept { (change : FileChange) (files : Files)
        → AreSortedDistinctTexts (kept_left_over_paths_of change files) }
    // The paths beside which an `.apk-new` file is written are in byte order, each once.
    ensures aside { (change : FileChange) (files : Files)
        → AreSortedDistinctTexts (paths_with_apk_new_file change files) }
{}

/// A law: no name is both written and removed, and no kept path is written or removed.
pub fn a_name_has_one_place_in_a_plan()
    // A written name is not removed.
    ensures removed { (change : FileChange) (files : Files) (name : List ℕ)
        → is_listing_written_under_name change files name ≡ true → is_removed change files name
        ≡ false }
    // A path at which the user's file is kept is neither written nor removed.
    ensures kept { (change : FileChange) (files : Files) (name : List ℕ)
        → is_left_over_modified_file_kept change files name ≡ true
        → (is_listing_written_under_name change files name ≡ false)
        × (is_removed change files name ≡ false) }
{}
