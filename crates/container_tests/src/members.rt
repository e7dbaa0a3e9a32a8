//! Builds the members of a change (the packages that are installed after it): added packages, from
//! rows, and kept packages, from a database. Their order is that of their names, as
//! `docs/formats.md`, "The database after a change", has it.

ghost use Rattle.db_core.specs.adb_fields.Repeated.{package_name};
ghost use Rattle.adb_view.specs.Plain.{Plain};
ghost use Rattle.db_core.specs.Seen.{packages_of};
ghost use Rattle.db_core.specs.pkg_core.Values.{value_of_contents};
ghost use Rattle.std.specs.Prelude.{◌≡◌, ◌<◌, Some, length, slice_get};

use crate::package::package_file;
use crate::package_tree::PackageTree;
use base_core::Words;
use db_core::{
    Contents, Db, Front, FrontFault, MOST_MEMBERS, Members, PACKAGE_WORD, PackageFault,
    PackageView, read_front,
};
use std::alloc::{AllocError, Global};
use std::marker::PhantomData;

/// The front (header and first block) of the package that a row describes, or None if the package
/// is bad.
pub(crate) fn front_of_row(alloc: Global, row: &Words) -> Result<Option<Front>, AllocError> {
    let file = package_file(alloc, row)?;
    let mut package = PackageTree::new(alloc, &file)?;
    match read_front(alloc, &mut package.tree, &package.name, PACKAGE_WORD) {
        Ok(front) => Ok(front),
        Err(FrontFault::Bad(_) | FrontFault::Disk) => Ok(None),
        Err(FrontFault::Memory) => Err(AllocError),
    }
}

/// The name of the package with the index `i` in a database, counted from 0. `_mark` names the type
/// of the view in the signature, which only the borrow checker needs.
pub(crate) fn name_at<'a>(db: &Db<'a>, i: usize, _mark: PhantomData<PackageView<'a>>) -> &'a [u8]
    // The database has a package with this index.
    requires { i < length (packages_of db.now) }
    // The result is the name of this package.
    ensures { (pkg : Plain) → slice_get (packages_of db.now) i ≡ Some pkg
        → result.now ≡ package_name pkg }
{
    let package = db.package(i);
    package.info().name()
}

/// Adds the installed package with the index `i` in the database as a kept member. Returns false,
/// and adds nothing, if there are `MOST_MEMBERS` members already, if there is no such package, or
/// if its name is not after the names of the members.
pub(crate) fn add_installed(members: &mut Members<'_>, i: usize) -> Result<bool, AllocError> {
    if members.len() >= MOST_MEMBERS || i >= members.db().len() {
        return Ok(false);
    }
    if !members.is_after_members(name_at(members.db(), i, PhantomData)) {
        return Ok(false);
    }
    members.stays(i)?;
    Ok(true)
}

/// Adds packages as added members, in this order, until one is refused. Returns false if
/// `add_coming` refuses one.
pub(crate) fn add_all_coming<'a>(
    alloc: Global,
    members: &mut Members<'a>,
    fronts: &'a [Option<Front>],
) -> Result<bool, AllocError> {
    for front in fronts {
        if !add_coming(alloc, members, front)? {
            return Ok(false);
        }
    }
    Ok(true)
}

/// Adds the package with this front as an added member. Returns false, and adds nothing, if the
/// package is bad or has no front, if there are `MOST_MEMBERS` members already, or if its name is
/// not after the names of the members.
pub(crate) fn add_coming<'a>(
    alloc: Global,
    members: &mut Members<'a>,
    front: &'a Option<Front>,
) -> Result<bool, AllocError> {
    let Some(front) = front else {
        return Ok(false);
    };
    match Contents::new(alloc, front) {
        Ok(contents) => add_contents(members, &contents),
        Err(PackageFault::Bad(_)) => Ok(false),
        Err(PackageFault::Memory) => Err(AllocError),
    }
}

/// Adds a package as an added member. Returns false, and adds nothing, if there are `MOST_MEMBERS`
/// members already, or if its name is not after the names of the members.
fn add_contents<'a>(
    members: &mut Members<'a>,
    contents: &Contents<'a>,
) -> Result<bool, AllocError> {
    if members.len() >= MOST_MEMBERS {
        return Ok(false);
    }
    if !members.is_after_members(name_of(contents, PhantomData)) {
        return Ok(false);
    }
    members.push_added_in_pieces(contents)?;
    Ok(true)
}

/// The name of a package that is read in pieces. `_mark` names the type of the view in the
/// signature, which only the borrow checker needs.
fn name_of<'a>(contents: &Contents<'a>, _mark: PhantomData<PackageView<'a>>) -> &'a [u8]
    // The result is the name of this package.
    ensures { result.now ≡ package_name (value_of_contents contents.now) }
{
    let info = contents.view().info();
    info.name()
}
