//! Changes of packages, which are described by rows, and the plans of their files. `tests/lines.md`
//! describes how a row gives a package; the rules of plans are in `docs/commands.md`, "What a
//! change does with files".
use crate::members::{add_coming, add_installed, front_of_row};
use crate::package::database_file;
use crate::plans::answer::{add_fault, add_files};
use adb_schema::ReadFault;
use base_core::Words;
use db_core::{Db, Members, write_db};
use own_core::plan;
use pkg_core::Front;
use row_lines::{Answer, words_behind};
use std::alloc::{AllocError, Global};
use tree_memory::MemoryTree;

/// A change that rows describe: the packages before it and after it.
#[derive(Drop)]
pub(crate) struct ToldChange {
    /// The installed packages before the change, each as the words of its row.
    before: Vec<Words>,
    /// The packages after the change.
    after: Vec<PackageAfter>,
}

/// A package after a change.
#[derive(Drop)]
enum PackageAfter {
    /// The installed package with this name is kept.
    Kept(Vec<u8>),
    /// The package with this front (header and first block) is added. A package that fails a test
    /// has no front.
    Added(Option<Front>),
}

impl ToldChange {
    /// A change without packages.
    pub(crate) fn new(alloc: Global) -> ToldChange {
        ToldChange {
            before: Vec::new(alloc),
            after: Vec::new(alloc),
        }
    }

    /// Adds the package that a row describes to the packages before the change.
    pub(crate) fn install(&mut self, alloc: Global, row: &Words) -> Result<(), AllocError> {
        self.before.push(words_behind(alloc, row, 0)?)?;
        Ok(())
    }

    /// Adds the installed package with this name to the packages after the change.
    pub(crate) fn keep(&mut self, alloc: Global, name: &[u8]) -> Result<(), AllocError> {
        let name = Vec::from_slice(alloc, name)?;
        self.after.push(PackageAfter::Kept(name))?;
        Ok(())
    }

    /// Adds the package that a row describes to the packages after the change.
    pub(crate) fn add(&mut self, alloc: Global, row: &Words) -> Result<(), AllocError> {
        let front = front_of_row(alloc, row)?;
        self.after.push(PackageAfter::Added(front))?;
        Ok(())
    }
}

/// Adds to the answer the plan of a change, or why it has none. With `purge`, the plan is that with
/// `--purge`. Returns the file of the database after the change, which is empty if there is no plan
/// or if the file cannot be written.
pub(crate) fn add_plan(
    alloc: Global,
    tree: &mut MemoryTree,
    change: &ToldChange,
    purge: bool,
    answer: &mut Answer,
) -> Result<Vec<u8>, AllocError> {
    let file = database_file(alloc, &change.before)?;
    add_plan_over(alloc, tree, &file, &change.after, purge, answer)
}

/// Does what `add_plan` does, given the file of the database before the change, and the packages
/// after it.
fn add_plan_over(
    alloc: Global,
    tree: &mut MemoryTree,
    file: &[u8],
    packages: &[PackageAfter],
    purge: bool,
    answer: &mut Answer,
) -> Result<Vec<u8>, AllocError> {
    match Db::read(alloc, file) {
        Ok(db) => add_plan_of(alloc, tree, &db, packages, purge, answer),
        Err(ReadFault::Bad(_)) => {
            answer.push(b"the database is bad");
            Ok(Vec::new(alloc))
        }
        Err(ReadFault::Memory) => Err(AllocError),
    }
}

/// Does what `add_plan` does, given the database before the change, and the packages after it.
fn add_plan_of(
    alloc: Global,
    tree: &mut MemoryTree,
    db: &Db<'_>,
    packages: &[PackageAfter],
    purge: bool,
    answer: &mut Answer,
) -> Result<Vec<u8>, AllocError> {
    let Some(members) = members_of(alloc, db, packages)? else {
        answer.push(b"a package is bad, absent or not in order");
        return Ok(Vec::new(alloc));
    };
    let mut file = Vec::new(alloc);
    match plan(alloc, db, &members, tree, purge) {
        Ok(found) => {
            add_files(&found, answer);
            if let Ok(written) = write_db(alloc, &members, found.owned()) {
                file = written;
            }
        }
        Err(fault) => add_fault(&fault, answer),
    }
    Ok(file)
}

/// The members that the packages after a change are: packages of the database, and added packages.
/// None if a package is bad, absent or not in the order of names.
fn members_of<'a>(
    alloc: Global,
    db: &'a Db<'a>,
    packages: &'a [PackageAfter],
) -> Result<Option<Members<'a>>, AllocError> {
    let mut members = Members::new(alloc, db);
    let complete = add_packages(alloc, &mut members, packages)?;
    Ok(if complete { Some(members) } else { None })
}

/// Adds packages to members, until one is bad, absent or not in the order of names. Returns false
/// if one is.
fn add_packages<'a>(
    alloc: Global,
    members: &mut Members<'a>,
    packages: &'a [PackageAfter],
) -> Result<bool, AllocError> {
    for package in packages {
        let added = match package {
            PackageAfter::Kept(name) => match members.db().find(name) {
                Some(i) => add_installed(members, i)?,
                None => false,
            },
            PackageAfter::Added(front) => add_coming(alloc, members, front)?,
        };
        if !added {
            return Ok(false);
        }
    }
    Ok(true)
}
