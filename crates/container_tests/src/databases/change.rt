//! Computes the database after a change that the words of a row describe. The rules are in
//! `docs/formats.md`, "The database after a change".
use crate::members::{add_all_coming, add_installed, name_at};
use adb_schema::ReadFault;
use adb_write::WriteFault;
use base_core::Words;
use db_core::{Db, Members, Owned, write_db};
use pkg_core::Front;
use std::alloc::{AllocError, Global};
use std::marker::PhantomData;

/// The database after a change. It has the packages of the database in `file`, and then the added
/// packages, whose fronts (headers and first blocks) are in `coming`. The packages whose names are
/// words of the row, from the third word on, are left out. The new database lists the files whose
/// flag is `1`; `flags` has one byte for each file. A `file` that is no database has no packages.
/// None if the names of the packages are not in order, or an added package is bad, or the database
/// is too large.
pub(crate) fn changed_database(
    alloc: Global,
    file: &[u8],
    coming: &[Option<Front>],
    flags: &[u8],
    words: &Words,
) -> Result<Option<Vec<u8>>, AllocError> {
    let mut owned = Owned::new(alloc);
    for flag in flags {
        owned.push(*flag == b'1')?;
    }
    changed_over(alloc, file, coming, &owned, words)
}

/// The database after a change of the database in `file`, or of an empty one if `file` is no
/// database. `owned` says for each file of the new database whether its package owns it.
fn changed_over<'a>(
    alloc: Global,
    file: &'a [u8],
    coming: &'a [Option<Front>],
    owned: &Owned,
    words: &Words,
) -> Result<Option<Vec<u8>>, AllocError> {
    let db = match Db::read(alloc, file) {
        Ok(db) => db,
        Err(ReadFault::Bad(_)) => Db::empty(alloc),
        Err(ReadFault::Memory) => return Err(AllocError),
    };
    change_of(alloc, &db, coming, owned, words)
}

/// The database after a change of the database `db`. The other parameters are those of
/// `changed_over`.
fn change_of<'a>(
    alloc: Global,
    db: &Db<'a>,
    coming: &'a [Option<Front>],
    owned: &Owned,
    words: &Words,
) -> Result<Option<Vec<u8>>, AllocError> {
    let mut members = Members::new(alloc, db);
    if !add_members(alloc, &mut members, db, coming, words)? {
        return Ok(None);
    }
    match write_db(alloc, &members, owned) {
        Ok(file) => Ok(Some(file)),
        Err(WriteFault::TooLarge { .. }) => Ok(None),
        Err(WriteFault::Memory) => Err(AllocError),
    }
}

/// Adds to the members the packages of the database that stay, and then the added packages. Returns
/// false if one of them is refused.
fn add_members<'a>(
    alloc: Global,
    members: &mut Members<'a>,
    db: &Db<'a>,
    coming: &'a [Option<Front>],
    words: &Words,
) -> Result<bool, AllocError> {
    for i in 0..db.len() {
        // A package is kept unless its name is one of the words after the flags.
        let stays = !is_among(words, name_at(db, i, PhantomData));
        if stays && !add_installed(members, i)? {
            return Ok(false);
        }
    }
    add_all_coming(alloc, members, coming)
}

/// Whether a name is one of the words after the flags: one of the names of `change FLAGS NAME ..`.
fn is_among(words: &Words, name: &[u8]) -> bool {
    for i in 2..words.len() {
        if words.word(i) == name {
            return true;
        }
    }
    false
}
