//! The packages after a change: the added ones are read, and all are made members. `engine_core`
//! calls `read_arrivals` and then `members_of_change`.
//!
//! The rules are in `docs/commands.md`, "`add` and `del`". The part "What is read" says that each
//! added package is read from the file `NAME-VERSION.apk` in the folder of its index. Reason 9 of
//! the part "What is refused" is about the first package, in byte order of names, that has a bad
//! file or a script that has to run.

ghost use Rattle.change_outcome.specs.Answered.{DenotesUnlessDisk};
ghost use Rattle.change_outcome.specs.Arrivals.{AreMembersFoundFromOldPackagesAndReads, CanBeMembers, arrivals_seen, HasPlaceIfKept, member_of_read_package, members_by_packages_before_and_reads, IsTestedPackageWithContentsOfMember, added_package_in_member_read};
ghost use Rattle.change_outcome.specs.NameReads.{IsAnswerByRead, IsNameRead, IsReadOfKeptPackage, member_of_name_by_read};
ghost use Rattle.base_core.specs.Read.{OnlyReads};
ghost use Rattle.change_inputs.specs.Answers.{Agrees};
ghost use Rattle.change_outcome.specs.MembersAfter.{members_after, no_member_unless_removal_needs_script, MemberFound, found_members};
ghost use Rattle.db_core.specs.Seen.{packages_of_old_database, packages_of, members_of};
ghost use Rattle.db_core.specs.declared.members.TheConstants.{MOST_MEMBERS};
ghost use Rattle.change_inputs.specs.package_files.Runs.{HoldsOfSomeReadsOfTree};
ghost use Rattle.package_changes.specs.Placed.{package_at_old_place, names_with_change_and_old_and_pool_place, replacement_of};
ghost use Rattle.package_changes.specs.Seen.{change_seen, placed_name_seen, placed_names_seen, placed_replacement_from_parts};
ghost use Rattle.std.specs.Prelude.{◌≡◌, ◌≤◌, ◌==◌, ◌++◌, ℕ, List, None, length, IfOk, OnOk, option_copied, option_and_then, option_to_list, slice_get, ◌<◌, true, Some, ◌+◌, Bool, is_some};
ghost use Rattle.db_core.specs.Members.{Member, is_after_members, member_name, is_added};
ghost use Rattle.adb_view.specs.Plain.{Plain};
ghost use Rattle.change_outcome.specs.declared.arrivals.MemberRead.{MemberRead};
ghost use Rattle.package_verifier.specs.declared.package.TestedPackage.{TestedPackage};
ghost use Rattle.base_core.specs.Tree.{TreeState};
ghost use Rattle.change_inputs.specs.Inputs.{first_index_read_number};
ghost use Rattle.dep_core.specs.Repositories.{Repository};
ghost use Rattle.change_inputs.specs.make_info.Reads.{Reads};
ghost use Rattle.package_changes.specs.Changes.{Replacement};

use crate::package::read_added;
use crate::scripts::test_scripts;
use base_core::{Tree, consecutive_reads_compose};
use change_inputs::{Refused, Sealed};
use db_core::{Db, Members};
use dep_core::Repos;
use package_changes::{Change, PlacedName, PlacedNames, places_lead_to_packages_and_candidates};
use package_verifier::TestedPackage;
use std::alloc::{AllocError, Global};
use std::marker::PhantomData;

/// A package that is installed after the change, as it was read.
#[derive(Drop)]
pub(crate) enum MemberRead {
    /// The package is kept; this is its place in the database, counted from 0.
    Stays(usize),
    /// The package is added; this is what was read of its file.
    Comes(TestedPackage),
}

/// The packages after a change as they were read, in byte order of names. Contracts see a list of
/// `MemberRead`: of each kept package its place in the database, and of each added one what was
/// read.
#[derive(Drop)]
pub struct Arrivals {
    /// The packages, in byte order of their names.
    pub(crate) members: Vec<MemberRead>,
}

impl Arrivals {
    ghost use Rattle.change_outcome.specs.Arrivals.{added_package_in_member_read};

    /// How many packages there are after the change.
    pub fn len(&self) -> usize
        ensures { result ≡ length (arrivals_seen self.now) }
    {
        self.members.len()
    }

    /// Whether there is no package after the change.
    pub fn is_empty(&self) -> bool
        ensures { result ≡ (length (arrivals_seen self.now) == 0) }
    {
        self.members.is_empty()
    }

    /// What was read of the member at this place, counted from 0; None if the member is kept.
    pub fn package(&self, place: usize) -> Option<&TestedPackage>
        ensures { option_copied result
            ≡ option_and_then added_package_in_member_read (slice_get
            (arrivals_seen self.now) place) }
    {
        if place >= self.members.len() {
            return None;
        }
        match &self.members[place] {
            MemberRead::Stays(_) => None,
            MemberRead::Comes(pkg) => Some(pkg),
        }
    }
}

/// Reads the added packages of a change. `names` says what happens to each package, if candidates
/// of `pool` replace the packages of `db`. Each file is read and tested once, in byte order of
/// names. The tree is unchanged, whatever is returned.
///
/// # Errors
///
/// For the first package that is refused: `PackageMissing`, `PackageBad`, `PackageDiffers` or
/// `ScriptNeeded`. `Disk` if the tree failed, or `Memory`.
pub fn read_arrivals<T: Tree>(
    alloc: Global,
    tree: &mut T,
    db: &Db<'_>,
    pool: &Sealed<'_>,
    names: &PlacedNames<'_>,
    repositories: &Repos,
    no_scripts: bool,
) -> Result<Arrivals, Refused>
    // For each selection, and each list of names to be installed again, from which `names` were
    // made: the packages read are those that the definition `members_after` finds with some reads.
    ensures found { (trace : List ℕ) (again : List (List ℕ))
        → placed_names_seen names.now
        ≡ names_with_change_and_old_and_pool_place
        (placed_replacement_from_parts db.now pool.now trace again)
        → HoldsOfSomeReadsOfTree (T.history tree.old) (λ read. DenotesUnlessDisk (λ arrivals found.
        AreMembersFoundFromOldPackagesAndReads (T.history tree.old) (packages_of db.now)
        (arrivals_seen arrivals) found)
        result
        (members_after (replacement_of
        (placed_replacement_from_parts db.now pool.now trace again)) read
        repositories.now no_scripts)) }
    // The packages can be members (*CanBeMembers*), if there are no more candidates than members
    // are allowed: they are in byte order of names, and each kept one has a place in the database.
    ensures members { (trace : List ℕ) (again : List (List ℕ))
        → placed_names_seen names.now
        ≡ names_with_change_and_old_and_pool_place
        (placed_replacement_from_parts db.now pool.now trace again)
        → length pool.now.candidates ≤ MOST_MEMBERS
        → IfOk result (λ arrivals. CanBeMembers (packages_of db.now) (arrivals_seen arrivals)) }
    // The tree is only read, and `Disk` has a fault of the tree as its cause.
    ensures tree { OnlyReads Refused.Disk (T.history tree.old) (T.history tree.new)
        (T.counts tree.old) (T.counts tree.new) result }
{
    // Laws that the proof needs; they compute nothing.
    places_lead_to_packages_and_candidates();
    consecutive_reads_compose::<u8, Option<MemberRead>, Refused>();
    consecutive_reads_compose::<u8, Arrivals, Refused>();
    let mut members = Vec::new(alloc);
    for i in 0..names.len() {
        let name = names.get(i);
        let member = read_name(alloc, tree, db, pool, name, repositories, no_scripts)?;
        push_member(&mut members, member)?;
    }
    Ok(Arrivals { members })
}

/// Appends a package after the change to those read before; None, for a removed one, appends
/// nothing.
fn push_member(members: &mut Vec<MemberRead>, member: Option<MemberRead>) -> Result<(), AllocError>
    ensures { OnOk result (members.new.items ≡ members.old.items ++ option_to_list member) }
{
    match member {
        None => Ok(()),
        Some(member) => {
            members.push(member)?;
            Ok(())
        }
    }
}

/// The package with this name after the change, read if it is added; None if the package is
/// removed.
fn read_name<T: Tree>(
    alloc: Global,
    tree: &mut T,
    db: &Db<'_>,
    pool: &Sealed<'_>,
    name: &PlacedName<'_>,
    repositories: &Repos,
    no_scripts: bool,
) -> Result<Option<MemberRead>, Refused>
    // The result is that of the definition, for a read that finds the tree's file, or some file.
    ensures found { IsAnswerByRead (IsNameRead (T.history tree.old) (packages_of db.now))
        (T.history tree.old) (member_of_name_by_read
        (packages_of db.now) pool.now repositories.now no_scripts
        (placed_name_seen name.now)) result }
    // The tree is only read, and `Disk` has a fault of the tree as its cause.
    ensures tree { OnlyReads Refused.Disk (T.history tree.old) (T.history tree.new)
        (T.counts tree.old) (T.counts tree.new) result }
{
    // A law that the proof needs; it computes nothing.
    consecutive_reads_compose::<TestedPackage, Option<MemberRead>, Refused>();
    let Some(change) = name.change else {
        // The package does not change: it is kept, and no file is read.
        return Ok(staying(db, name.old));
    };
    match name.candidate(pool) {
        // No candidate is selected: the package is removed.
        None => {
            test_removed(alloc, no_scripts, db, name, &change)?;
            Ok(None)
        }
        // The package of the selected candidate is added.
        Some(c) => {
            let pkg = read_added(
                alloc,
                tree,
                repositories,
                no_scripts,
                name.name,
                &change,
                &c,
            )?;
            Ok(Some(MemberRead::Comes(pkg)))
        }
    }
}

/// The kept package at a place of the database, counted from 0, if there is one.
fn staying(db: &Db<'_>, place: Option<usize>) -> Option<MemberRead>
    // A kept package at this place, or None without a place.
    ensures { IsReadOfKeptPackage (packages_of db.now)
        (option_and_then (slice_get (packages_of db.now)) place) result }
{
    match place {
        Some(i) if i < db.len() => Some(MemberRead::Stays(i)),
        _ => None,
    }
}

/// Refuses the removed package with this name, if it has a script that would have to run and
/// scripts may not be left out.
fn test_removed(
    alloc: Global,
    no_scripts: bool,
    db: &Db<'_>,
    name: &PlacedName<'_>,
    change: &Change<'_>,
) -> Result<(), Refused>
    // Refused as the definition refuses the removed package, unless memory runs out.
    ensures { Agrees (λ _. None) result (no_member_unless_removal_needs_script no_scripts
        (placed_name_seen
        name.now).name
        (change_seen change.now) (package_at_old_place (packages_of db.now)
        (placed_name_seen name.now))) }
{
    match name.old {
        Some(i) if i < db.len() => {
            let pkg = db.package(i);
            test_scripts(alloc, no_scripts, name.name, change, &pkg, PhantomData)
        }
        _ => Ok(()),
    }
}

/// The packages after a change as members, in byte order of names: each kept one is lent from the
/// database, and each added one from what was read of its file.
pub fn members_of_change<'a>(
    alloc: Global,
    db: &'a Db<'a>,
    arrivals: &'a Arrivals,
) -> Result<Members<'a>, AllocError>
    // The packages can be members: kept ones have places in the database, names are in order, few
    // enough.
    requires { CanBeMembers (packages_of db.now) (arrivals_seen arrivals.now) }
    // The members are those of the definition, in the same order.
    ensures { IfOk result (λ members. members_of members
        ≡ members_by_packages_before_and_reads (packages_of db.entry.now)
        (arrivals_seen arrivals.entry.now)) }
{
    let mut members = Members::new(alloc, db);
    for read in &arrivals.members {
        push_read(&mut members, read)?;
    }
    Ok(members)
}

/// Appends a package that was read to the members.
fn push_read<'a>(members: &mut Members<'a>, read: &'a MemberRead) -> Result<(), AllocError>
    // The name of the package is after the names of all members so far, in byte order.
    requires behind { (m : Member)
        → member_of_read_package (packages_of_old_database members.old) read.now ≡ Some m
        → is_after_members (member_name m) (members_of members.old) ≡ true }
    // A kept package has a place in the database.
    requires placed { HasPlaceIfKept (packages_of_old_database members.old) read.now }
    // There is room for one more member.
    requires few { length (members_of members.old) < MOST_MEMBERS }
    // The package is appended as a member, if it was kept or added.
    ensures added { OnOk result (members_of members.new ≡ members_of members.old
        ++ option_to_list (member_of_read_package
        (packages_of_old_database members.old) read.entry.now)) }
    // The packages of the old database are unchanged.
    ensures before { packages_of_old_database members.new ≡ packages_of_old_database members.old }
{
    match read {
        // The package is kept: its entry in the database is lent.
        MemberRead::Stays(place) => members.stays(*place),
        // The package is added: what was read of its file is lent.
        MemberRead::Comes(pkg) => members.push_added_in_pieces(&pkg.contents()),
    }
}

/// A law: packages that were read are, as members, the packages that the definition finds.
pub fn packages_that_were_read_are_those_found()
    ensures { (history : List TreeState) (before : List Plain) (reads : List MemberRead)
        (found : List MemberFound)
        → AreMembersFoundFromOldPackagesAndReads history before reads found
        → members_by_packages_before_and_reads before reads ≡ found_members found }
{}

/// A law: the package that was read for the member at a place is that of the file whose contents
/// the definition finds for this member; and for each added member a package was read.
pub fn a_package_that_was_read_is_that_of_its_file()
    // The package at a place is that of the file of this member.
    ensures file { (history : List TreeState) (before : List Plain) (reads : List MemberRead)
        (found : List MemberFound)
        → AreMembersFoundFromOldPackagesAndReads history before reads found
        → (place : ℕ) (pkg : TestedPackage)
        → option_and_then added_package_in_member_read (slice_get reads place) ≡ Some pkg
        → IsTestedPackageWithContentsOfMember history found place pkg }
    // For each added member a package was read.
    ensures comes { (history : List TreeState) (before : List Plain) (reads : List MemberRead)
        (found : List MemberFound)
        → AreMembersFoundFromOldPackagesAndReads history before reads found
        → (place : ℕ) (m : Member) → slice_get (found_members found) place ≡ Some m
        → is_added m ≡ true
        → is_some (option_and_then added_package_in_member_read (slice_get reads place)) ≡ true }
{}

/// A law: the packages after a change depend only on the reads after those of the indexes. Earlier
/// reads of a command do not matter.
pub fn packages_after_a_change_depend_on_their_reads()
    ensures { (r : Replacement) (read other : Reads) (repositories : List Repository)
        (no_scripts : Bool) → ((n : ℕ) (name : List ℕ)
        → first_index_read_number + length repositories ≤ n → read n name ≡ other n name)
        → members_after r read repositories no_scripts
        ≡ members_after r other repositories no_scripts }
{}
