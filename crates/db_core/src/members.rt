//! The packages after a change.
//! The rule is in `docs/formats.md`, "The database after a change": kept and added packages, in
//! byte order of their names. `docs/DECISIONS.md`, "The installed database", says how a member is
//! added.

ghost use Rattle.pkg_core.specs.adb_fields.Repeated.{package_name};
ghost use Rattle.pkg_core.specs.adb_schema.Views.{package_value};
ghost use Rattle.adb_view.specs.Adb.{payload_of};
ghost use Rattle.adb_view.specs.Plain.{Plain};
ghost use Rattle.base_core.specs.Listed.{AreSortedDistinctTexts};
ghost use Rattle.db_core.specs.EntrySeen.{is_added_or_has_payload, member_of_entry, payload_of_database};
ghost use Rattle.db_core.specs.Members.{Member, is_after_members, member_of_added, is_added, is_found_place, member_name, member_of_kept, Listing, listings_of_members};
ghost use Rattle.base_core.specs.ByteOrder.{precedes};
ghost use Rattle.std.specs.List.Sorted.{IsPartitionPoint};
ghost use Rattle.db_core.specs.Packages.{is_added_or_lists_no_reserved, lists_only_valid_names};
ghost use Rattle.db_core.specs.SoundMembers.{AreMembersOfSoundContainers};
ghost use Rattle.db_core.specs.declared.members.TheConstants.{MOST_MEMBERS};
ghost use Rattle.pkg_core.specs.Values.{payload_of_contents, value_of_contents};
ghost use Rattle.sha2.specs.Sha256.{sha256};
ghost use Rattle.std.specs.List.{list_all};
ghost use Rattle.std.specs.Prelude.{◌≡◌, ◌<◌, ◌≤◌, ◌++◌, ◌∷◌, [], true, false, ◌==◌, ℕ, All, Some, None, IfSome, bytes_eq, length, map, slice_get, IfOk, OnOk, OnErr, List};
ghost use Rattle.db_core.specs.ListedAt.{IsListedAt};

use crate::db::{Db, package_of_database};
use pkg_core::{Contents, PackageView};
use std::alloc::{AllocError, Global};
use std::marker::Model;

/// How many packages there may be after a change: as many as there may be candidates
/// (`docs/selection.md`, "What there is to choose from").
pub const MOST_MEMBERS: usize = 65536;

/// A package after the change, and the id of an added one.
#[derive(Drop)]
pub(crate) struct PackageWithId<'a> {
    /// The view of the package, in a payload.
    pub(crate) view: PackageView<'a>,
    /// The id of an added package; none for a kept one.
    pub(crate) id: Option<[u8; 32]>,
}

impl<'a> Model for PackageWithId<'a> {
    ghost use Rattle.std.specs.Prelude.{ℕ, List, Option};
    ghost use Rattle.std.specs.Prelude.{◌≡◌, true};
    ghost use Rattle.adb_view.specs.Adb.{payload_of};
    ghost use Rattle.adb_view.specs.Values.{is_sound};
    ghost use Rattle.adb_view.specs.declared.tables.Kind.TheVariants as Kinds;
    ghost use Rattle.adb_view.specs.declared.tables.Which.TheVariants as Tables;

    // Contracts see a payload, the word of the package in it, and the id of an added package.
    ghost Value = { List ℕ × ℕ × Option (List ℕ) };

    // The payload and the word are those of the view.
    ghost view = { λ e. (payload_of e.view.adb, e.view.word, e.id) };

    // The word refers to a package in the payload.
    ghost invariant = { λ e. is_sound (payload_of e.view.adb) (Kinds.Obj Tables.Package) e.view.word
        ≡ true };
}

/// The packages after a change, in byte order of names: kept and added ones.
#[derive(Drop)]
pub struct Members<'a> {
    /// The database of the kept packages.
    pub(crate) db: &'a Db<'a>,
    /// The packages, in byte order of their names.
    pub(crate) entries: Vec<PackageWithId<'a>>,
    // The packages are in byte order of their names, each name once.
    ghost in_order: { AreSortedDistinctTexts (map (λ e. member_name
        (member_of_entry e)) entries.items) },
    // There are no more packages than there may be.
    ghost few: { length entries.items ≤ MOST_MEMBERS },
    // Each path that a package lists is a name.
    ghost named: { list_all (λ e. lists_only_valid_names (member_of_entry e).pkg) entries.items
        ≡ true },
    // A kept package lists no reserved path.
    ghost free: { list_all (λ e. is_added_or_lists_no_reserved (member_of_entry e)) entries.items
        ≡ true },
    // The packages are from sound containers.
    ghost sound: { ∥ AreMembersOfSoundContainers (map member_of_entry entries.items) ∥₁ },
    // A kept package is read from the payload of the database.
    ghost lent: { list_all (is_added_or_has_payload (payload_of_database db.now.idb)) entries.items
        ≡ true },
}

/// Whether the name of a package is before another name in byte order.
fn is_before(entry: &PackageWithId<'_>, name: &[u8]) -> bool
    ensures { result ≡ precedes (member_name (member_of_entry entry.now)) name.now }
{
    let order = entry.view.info().name().cmp(&name);
    order.is_lt()
}

impl<'a> Members<'a> {
    ghost use Rattle.pkg_core.specs.adb_schema.Reserved.{is_reserved};
    ghost use Rattle.base_core.specs.Name.{IsName};
    ghost use Rattle.db_core.specs.Members.{AreMembersInNameOrder, listings_of_members};
    ghost use Rattle.db_core.specs.Seen.{members_of, packages_of_old_database, packages_of, payload_of_old_database};

    /// A list without packages, for kept packages of a database and added ones.
    pub fn new(alloc: Global, db: &'a Db<'a>) -> Members<'a>
        // There is no member yet.
        ensures none { members_of result ≡ [] }
        // The old packages are those of the given database.
        ensures before { packages_of_old_database result ≡ packages_of db.entry.now }
    {
        Members {
            db,
            entries: Vec::new(alloc),
        }
    }

    /// The database of the kept packages.
    pub fn db(&self) -> &'a Db<'a>
        ensures { packages_of result.now ≡ packages_of_old_database self.now }
    {
        self.db
    }

    /// Adds the package at a place of the database, counted from 0, as a kept one. A refused call
    /// changes nothing.
    ///
    /// # Errors
    ///
    /// Out of memory.
    pub fn stays(&mut self, i: usize) -> Result<(), AllocError>
        // The place is one of the packages of the old database.
        requires at { i < length (packages_of_old_database self.old) }
        // The name is after those of all members so far.
        requires behind { (pkg : Plain) → slice_get (packages_of_old_database self.old) i ≡ Some pkg
            → is_after_members (package_name pkg) (members_of self.old) ≡ true }
        // The greatest number of members is not reached.
        requires few { length (members_of self.old) < MOST_MEMBERS }
        // On Ok, the package is the last member, a kept one.
        ensures ok { OnOk result ((pkg : Plain)
            → slice_get (packages_of_old_database self.old) i ≡ Some pkg
            → members_of self.new ≡ members_of self.old ++ member_of_kept pkg ∷ []) }
        // An error leaves the members unchanged.
        ensures err { OnErr result (members_of self.new ≡ members_of self.old) }
        // The packages of the old database are unchanged.
        ensures before { packages_of_old_database self.new ≡ packages_of_old_database self.old }
    {
        let view = package_of_database(&self.db.idb, i);
        self.entries.push(PackageWithId { view, id: None })?;
        Ok(())
    }

    /// Adds the package with these contents as an added one, with its id. A refused call changes
    /// nothing.
    ///
    /// # Errors
    ///
    /// Out of memory.
    pub fn push_added_in_pieces(&mut self, contents: &Contents<'a>) -> Result<(), AllocError>
        // The name is after those of all members so far.
        requires behind { is_after_members (package_name (value_of_contents contents.now))
            (members_of self.old) ≡ true }
        // The greatest number of members is not reached.
        requires few { length (members_of self.old) < MOST_MEMBERS }
        // On Ok, the package is the last member, with the digest of its payload as id.
        ensures ok { OnOk result (members_of self.new ≡ members_of self.old
            ++ member_of_added (value_of_contents contents.now)
            (sha256 (payload_of_contents contents.now)) ∷ []) }
        // An error leaves the members unchanged.
        ensures err { OnErr result (members_of self.new ≡ members_of self.old) }
        // The packages of the old database are unchanged.
        ensures before { packages_of_old_database self.new ≡ packages_of_old_database self.old }
    {
        contents.values_keep_their_rules();
        contents.values_are_sound();
        let view = contents.view();
        let id = contents.id();
        self.entries.push(PackageWithId { view, id: Some(id) })?;
        Ok(())
    }

    /// Whether this name is after the names of all packages, as the name of the next member has to
    /// be.
    pub fn is_after_members(&self, name: &[u8]) -> bool
        ensures { result ≡ is_after_members name.now (members_of self.now) }
    {
        let count = self.len();
        if count == 0 {
            return true;
        }
        let order = self.entries[count - 1].view.info().name().cmp(&name);
        order.is_lt()
    }

    /// The place of the package with this name, counted from 0, found by binary search. None is
    /// returned exactly if no package has the name.
    pub fn find(&self, name: &[u8]) -> Option<usize>
        // The result is the place of a member exactly if the member has this name.
        ensures found { (i : ℕ) (m : Member) → slice_get (members_of self.now) i ≡ Some m
            → is_found_place i result ≡ bytes_eq (member_name m) name.now }
        // A place that is returned is that of a member.
        ensures within { IfSome result (λ i. i < length (members_of self.now)) }
    {
        // The place of the first package whose name is not before the given one.
        let at = self.count_before(name);
        if at == self.len() {
            return None;
        }
        if self.entries[at].view.info().name() != name {
            return None;
        }
        Some(at)
    }

    /// How many packages have names that are before `name` in byte order.
    fn count_before(&self, name: &[u8]) -> usize
        // The result is at most the number of packages.
        ensures within { result ≤ length self.now.entries.items }
        // The packages before this place have names before the given one, and the others do not.
        ensures point { IsPartitionPoint
            (λ e. precedes (member_name (member_of_entry e)) name.now ≡ true)
            (λ e. precedes (member_name (member_of_entry e)) name.now ≡ false)
            self.now.entries.items result }
    {
        self.entries.partition_point(|entry| is_before(entry, name))
    }

    /// How many packages there are.
    pub fn len(&self) -> usize
        // The result is the number of members.
        ensures value { result ≡ length (members_of self.now) }
        // There are at most `MOST_MEMBERS` members.
        ensures few { result ≤ MOST_MEMBERS }
    {
        self.entries.len()
    }

    /// Whether there is no package.
    pub fn is_empty(&self) -> bool
        ensures { result ≡ (length (members_of self.now) == 0) }
    {
        self.entries.is_empty()
    }

    /// The package at a place, counted from 0. A kept one is read from the payload of the database.
    pub fn view(&self, i: usize) -> &PackageView<'a>
        // The index is that of one of the members.
        requires { i < length (members_of self.now) }
        // The value of the view is the member's package.
        ensures value { (m : Member) → slice_get (members_of self.now) i ≡ Some m
            → package_value result.now ≡ m.pkg }
        // A kept package is in the payload of the old database.
        ensures stays { (m : Member) → slice_get (members_of self.now) i ≡ Some m
            → is_added m ≡ false → payload_of result.now.adb ≡ payload_of_old_database self.now }
    {
        &self.entries[i].view
    }

    /// The id of the package at a place, counted from 0; none if the package is kept.
    pub fn id(&self, i: usize) -> Option<[u8; 32]>
        // The index is that of one of the members.
        requires { i < length (members_of self.now) }
        ensures { (m : Member) → slice_get (members_of self.now) i ≡ Some m → result ≡ m.id }
    {
        self.entries[i].id
    }

    /// Members are in byte order of their names, each name once. The writer of a database requires
    /// this, since a database lists its packages in that order.
    pub fn members_are_in_order(&self)
        ensures { AreMembersInNameOrder (members_of self.now) }
    {}

    /// Each path that a member lists is a name, so that a file may be written under it.
    pub fn listed_paths_are_names(&self)
        ensures { All (λ l. IsName l.path) (listings_of_members (members_of self.now)) }
    {}

    /// A kept member lists no reserved path, since its database passed the tests; an added package
    /// may list one.
    pub fn no_kept_member_lists_a_reserved_path(&self)
        // No path is reserved that a kept member lists.
        ensures { All (λ l. is_added l.member ≡ false → is_reserved l.path ≡ false)
            (listings_of_members (members_of self.now)) }
    {}

    /// The packages are from sound containers: what is read of them need not be tested again, and a
    /// database of them is sound.
    pub fn packages_are_sound(&self)
        ensures { ∥ AreMembersOfSoundContainers (members_of self.now) ∥₁ }
    {}
}

/// A law: each listing (a file that a member lists) is at its places: the member among members, the
/// folder in the member, and the file in the folder. The path of the listing is that of the folder
/// and the file. So a claim leads back to the entry of its file.
pub fn listings_are_at_their_places()
    ensures { (members : List Member) (i : ℕ) (l : Listing)
        → slice_get (listings_of_members members) i ≡ Some l → IsListedAt members l }
{}
