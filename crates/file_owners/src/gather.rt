//! The claims of members: each file that a member lists, with its positions.
//! The rule is in `docs/commands.md`, "Files that several packages list": an added package claims
//! each file that it lists, and a kept one those that the database lists for it. Members count from
//! 0, folders and files from 1, as in *Listing* of `db_core`.

ghost use Rattle.std.specs.Prelude.{◌≡◌, ◌<◌, ◌+◌, [], ◌∷◌, Some, IfOk, length, map, slice_get};
ghost use Rattle.path_claims.specs.adb_fields.Paths.{path_of};
ghost use Rattle.path_claims.specs.adb_fields.ListValue.{list_value};
ghost use Rattle.path_claims.specs.adb_fields.Repeated.{files_in, list_of, name_of};
ghost use Rattle.adb_view.specs.Values.{count_of, entries_in, nth};
ghost use Rattle.db_core.specs.Members.{Listing, Member, listings_of_member, listings_from_member_folder_file_places, listings_in_folders_from, listings_of_members};
ghost use Rattle.db_core.specs.Seen.{members_of};
ghost use Rattle.path_claims.specs.Seen.{claim_seen};
ghost use Rattle.file_owners.specs.Gathered.{claims_with_listings};

use db_core::{DirInfo, FileInfo, FilePath, List, Members};
use path_claims::Claim;
use std::alloc::{AllocError, Global};

/// A folder of a member's package, and where it is.
#[derive(Clone, Copy)]
struct FolderPlace<'a> {
    /// The index of the member.
    member: u32,
    /// The position of the folder in the member's package, counted from 1.
    folder: u32,
    /// The name of the folder; empty for the root.
    name: &'a [u8],
}

/// Adds the claim of the file `name` of the folder `place`. `file` is the file's position in the
/// folder, counted from 1.
fn add_file<'a>(
    claims: &mut Vec<Claim<'a>>,
    place: &FolderPlace<'a>,
    name: &'a [u8],
    file: u32,
) -> Result<(), AllocError>
    // On Ok, the claim of this file is added at the end: that of any listing l with the same path,
    // member and positions.
    ensures { IfOk result (λ _. (l : Listing) → l.path ≡ path_of place.now.name.now name.now
        → l.place ≡ place.now.member → l.folder ≡ place.now.folder → l.file ≡ file
        → map claim_seen claims.new.items
        ≡ claims_with_listings (map claim_seen claims.old.items) (l ∷ [])) }
{
    let number = claims.len();
    claims.push(Claim {
        path: FilePath {
            folder: place.name,
            name,
        },
        member: place.member,
        folder: place.folder,
        file,
        number,
    })?;
    Ok(())
}

/// Adds the claims of the files of the folder `place`. In the clause, 1 is the position of the
/// first file, and m is any member, since claims do not depend on the rest of the member.
fn add_files<'a>(
    claims: &mut Vec<Claim<'a>>,
    place: &FolderPlace<'a>,
    files: &List<'a, FileInfo<'a>>,
) -> Result<(), AllocError>
    // On Ok, the claims of the folder's files are added at the end.
    ensures { IfOk result (λ _. (m : Member) → map claim_seen claims.new.items
        ≡ claims_with_listings (map claim_seen claims.old.items)
        (listings_from_member_folder_file_places m place.now.member place.now.folder 1 place.now.name.now
        (list_of (entries_in (list_value files.now))))) }
{
    for i in 0..files.len() {
        add_file(claims, place, files.get(i + 1).name(), i as u32 + 1)?;
    }
    Ok(())
}

/// Adds the claims of the files of the folder with the index `i` in a member's list of folders.
/// `member` is the index of the member.
fn add_folder<'a>(
    claims: &mut Vec<Claim<'a>>,
    member: u32,
    folders: &List<'a, DirInfo<'a>>,
    i: usize,
) -> Result<(), AllocError>
    // The index is that of an entry of the list.
    requires { i < count_of (entries_in (list_value folders.now)) }
    // On Ok, the claims of the files of this folder are added at the end.
    ensures { IfOk result (λ _. (m : Member) → map claim_seen claims.new.items
        ≡ claims_with_listings (map claim_seen claims.old.items)
        (listings_from_member_folder_file_places m member (i + 1) 1
        (name_of (nth (entries_in (list_value folders.now)) i))
        (files_in (nth (entries_in (list_value folders.now)) i)))) }
{
    // This never happens, by the contract. The contract of `len` says that a list has less than
    // 2^32 entries.
    if i >= folders.len() {
        unreachable!();
    }
    let folder = folders.get(i + 1);
    let place = FolderPlace {
        member,
        folder: i as u32 + 1,
        name: folder.name(),
    };
    add_files(claims, &place, &folder.files())
}

/// Adds the claims of the files of all folders of a member; `member` is the index of the member. In
/// the clause, 1 is the position of the first folder.
pub(crate) fn add_folders<'a>(
    claims: &mut Vec<Claim<'a>>,
    member: u32,
    folders: &List<'a, DirInfo<'a>>,
) -> Result<(), AllocError>
    // On Ok, the claims of the files of all folders are added at the end.
    ensures { IfOk result (λ _. (m : Member) → map claim_seen claims.new.items
        ≡ claims_with_listings (map claim_seen claims.old.items)
        (listings_in_folders_from m member 1 (list_of (entries_in (list_value folders.now))))) }
{
    for i in 0..folders.len() {
        add_folder(claims, member, folders, i)?;
    }
    Ok(())
}

/// How many files the folders of a member have. The number only says for how many claims memory is
/// allocated.
pub(crate) fn count_files<'a>(folders: &List<'a, DirInfo<'a>>) -> usize {
    let mut count: usize = 0;
    for i in 0..folders.len() {
        count = count.saturating_add(folders.get(i + 1).files().len());
    }
    count
}

/// How many files all members list.
fn count_listed(members: &Members<'_>) -> usize {
    let mut count: usize = 0;
    for i in 0..members.len() {
        count = count.saturating_add(count_files(&members.view(i).paths()));
    }
    count
}

/// Adds the claims of the member with the index `i`.
fn add_member<'a>(
    claims: &mut Vec<Claim<'a>>,
    members: &Members<'a>,
    i: usize,
) -> Result<(), AllocError>
    // The index is that of one of the members.
    requires { i < length (members_of members.now) }
    // On Ok, the claims of this member m are added at the end.
    ensures { IfOk result (λ _. (m : Member) → slice_get (members_of members.now) i ≡ Some m
        → map claim_seen claims.new.items
        ≡ claims_with_listings (map claim_seen claims.old.items) (listings_of_member i m)) }
{
    let view = members.view(i);
    add_folders(claims, place_of(members, i), &view.paths())
}

/// The index `i` of a member in 32 bits, as claims have it.
pub(crate) fn place_of(members: &Members<'_>, i: usize) -> u32
    // The index is that of one of the members.
    requires { i < length (members_of members.now) }
    ensures { result ≡ i }
{
    // This never happens, by the contract. The contract of `len` says that there are at most 65,536
    // members.
    if i >= members.len() {
        unreachable!();
    }
    i as u32
}

/// The claims of all members, in the order of members, folders and files.
pub(crate) fn claims_in<'a>(
    alloc: Global,
    members: &Members<'a>,
) -> Result<Vec<Claim<'a>>, AllocError>
    // On Ok, these are the claims of all files that the members list, in order.
    ensures { IfOk result (λ claims. map claim_seen claims.items
        ≡ claims_with_listings [] (listings_of_members (members_of members.now))) }
{
    // The memory for all claims is asked for at once: a list that grows would leave smaller copies
    // of itself in memory.
    let mut claims = Vec::with_capacity(alloc, count_listed(members))?;
    for i in 0..members.len() {
        add_member(&mut claims, members, i)?;
    }
    Ok(claims)
}
