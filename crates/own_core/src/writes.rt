//! The writes of a plan: the names under which added files are written, and whose contents they
//! get. The rules are in `docs/commands.md`, "What a change does with files": the change writes
//! each file that an added package owns, under its path or beside the user's file as
//! `PATH.apk-new`. Positions of folders and files count as in `docs/formats.md`, "The other
//! blocks".

ghost use Rattle.std.specs.Prelude.{◌≡◌, ◌<◌, ◌==◌, ◌++◌, ◌∷◌, [], IfOk, OnOk, Some, length, map, slice_get};
ghost use Rattle.base_core.specs.Sorted.{sorted_by};
ghost use Rattle.path_claim_lists.specs.path_claims.Seen.{claim_seen};
ghost use Rattle.path_claim_lists.specs.Named.{HaveValidPaths};
ghost use Rattle.own_core.specs.WritesSeen.{CanHaveApkNewNames, apk_new_write, claim_write, write_of_claim_under, write_cmp, write_seen, writes_in};

use crate::guarded::name_beside;
use base_core::Name;
use path_claim_lists::{Claim, name_of_path};
use std::alloc::{AllocError, Global};

/// A write of a change: a name, and the file of an added package whose contents it gets.
#[derive(Drop)]
pub struct Write {
    /// The name under which the file is written: its path, or `PATH.apk-new`.
    pub name: Name,
    /// The index of the member that has the file.
    pub member: u32,
    /// The position of the folder in the member's package, counted from 1.
    pub path: u32,
    /// The position of the file in its folder, counted from 1.
    pub file: u32,
}

/// The files of packages that a change writes, in byte order of the names.
#[derive(Drop)]
pub struct Writes {
    /// The writes, in byte order of their names.
    pub(crate) writes: Vec<Write>,
}

impl Writes {
    /// How many writes there are.
    pub fn len(&self) -> usize
        ensures { result ≡ length (writes_in self.now) }
    {
        self.writes.len()
    }

    /// Whether there are no writes.
    pub fn is_empty(&self) -> bool
        ensures { result ≡ (length (writes_in self.now) == 0) }
    {
        self.writes.is_empty()
    }

    /// The write with this index.
    pub fn get(&self, i: usize) -> &Write
        // The index is that of one of the writes.
        requires { i < length (writes_in self.now) }
        ensures { slice_get (writes_in self.now) i ≡ Some (write_seen result.now) }
    {
        &self.writes[i]
    }
}

/// Adds a write of the claim's file under this name.
fn add_write(writes: &mut Vec<Write>, name: Name, claim: &Claim<'_>) -> Result<(), AllocError>
    // On Ok, the write is added at the end.
    ensures { OnOk result (map write_seen writes.new.items
        ≡ map write_seen writes.old.items
        ++ write_of_claim_under name (claim_seen claim.now) ∷ []) }
{
    writes.push(Write {
        name,
        member: claim.member,
        path: claim.folder,
        file: claim.file,
    })?;
    Ok(())
}

/// Adds, for each claim of `ins`, a write of its file under the claim's path.
fn add_in(alloc: Global, writes: &mut Vec<Write>, ins: &[Claim<'_>]) -> Result<(), AllocError>
    // The paths of the claims are names.
    requires { HaveValidPaths (map claim_seen ins.now) }
    // On Ok, these writes are added at the end, in the order of the claims.
    ensures { OnOk result (map write_seen writes.new.items
        ≡ map write_seen writes.old.items ++ map claim_write (map claim_seen ins.now)) }
{
    for claim in ins {
        let name = name_of_path(alloc, &claim.path)?;
        add_write(writes, name, claim)?;
    }
    Ok(())
}

/// Adds, for each claim of `asides`, a write of its file under `PATH.apk-new`.
fn add_beside(
    alloc: Global,
    writes: &mut Vec<Write>,
    asides: &[Claim<'_>],
) -> Result<(), AllocError>
    // The paths of the claims are names, and so are these with `.apk-new`.
    requires { CanHaveApkNewNames (map claim_seen asides.now) }
    // On Ok, these writes are added at the end, in the order of the claims.
    ensures { OnOk result (map write_seen writes.new.items
        ≡ map write_seen writes.old.items ++ map apk_new_write (map claim_seen asides.now)) }
{
    for claim in asides {
        let name = name_of_path(alloc, &claim.path)?;
        let beside = name_beside(alloc, &name)?;
        add_write(writes, beside, claim)?;
    }
    Ok(())
}

/// Sorts the writes by their names, in byte order.
fn sort_writes(writes: &mut Vec<Write>) -> Result<(), AllocError>
    // On Ok, the same writes are in byte order of their names.
    ensures { OnOk result (map write_seen writes.new.items
        ≡ sorted_by write_cmp (map write_seen writes.old.items)) }
{
    writes.sort_by(|one, other| one.name.as_bytes().cmp(other.name.as_bytes()))?;
    Ok(())
}

/// The writes of a plan, in byte order of the names. `ins` are the claims of files that are written
/// under their own paths, `asides` those of files that are written aside.
pub(crate) fn writes_of(
    alloc: Global,
    ins: &[Claim<'_>],
    asides: &[Claim<'_>],
) -> Result<Writes, AllocError>
    // The paths of `ins` are names.
    requires ins { HaveValidPaths (map claim_seen ins.now) }
    // The paths of `asides` are names, and so are these with `.apk-new`.
    requires asides { CanHaveApkNewNames (map claim_seen asides.now) }
    // On Ok, the writes are those of `ins` under their paths, and of `asides` under `PATH.apk-new`.
    ensures { IfOk result (λ writes. writes_in writes ≡ sorted_by write_cmp
        (map claim_write (map claim_seen ins.now)
        ++ map apk_new_write (map claim_seen asides.now))) }
{
    let mut writes = Vec::new(alloc);
    add_in(alloc, &mut writes, ins)?;
    add_beside(alloc, &mut writes, asides)?;
    sort_writes(&mut writes)?;
    Ok(Writes { writes })
}
