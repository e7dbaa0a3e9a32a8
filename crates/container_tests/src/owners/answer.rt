//! The answer to the question `owners`: who owns the files of the added packages, as text. The
//! rules are in `docs/commands.md`, "Files that several packages list".

use crate::flags::add_flags;
use crate::members::add_all_coming;
use adb_schema::FilePath;
use db_core::{Db, MOST_MEMBERS, Members};
use file_owners::{Owners, owners_of_files};
use pkg_core::Front;
use row_lines::Answer;
use std::alloc::{AllocError, Global};

/// Adds to the answer who owns the files of the packages with these fronts, or why this cannot be
/// asked. The change adds all these packages, and no package is installed before it.
pub(crate) fn add_owners<'a>(
    alloc: Global,
    fronts: &'a [Option<Front>],
    answer: &mut Answer,
) -> Result<(), AllocError> {
    add_owners_beside(alloc, &Db::empty(alloc), fronts, answer)
}

/// Does what `add_owners` does, given the database before the change, of which no package is kept.
fn add_owners_beside<'a>(
    alloc: Global,
    db: &Db<'a>,
    fronts: &'a [Option<Front>],
    answer: &mut Answer,
) -> Result<(), AllocError> {
    let mut members = Members::new(alloc, db);
    if !add_all_coming(alloc, &mut members, fronts)? {
        answer.push(b"a package is bad or not in order");
    } else if members.len() <= MOST_MEMBERS {
        add_found(&owners_of_files(alloc, &members)?, answer);
    }
    Ok(())
}

/// Adds for each path `PATH=PACKAGE` with the index of the owner, or `PATH=?` if no package owns
/// it. Then each listed file has `1` if its package owns it, else `0`. At the end is the first
/// contested path, if there is one, with the indexes of its rivals.
fn add_found(found: &Owners<'_>, answer: &mut Answer) {
    for i in 0..found.claims.len() {
        let path = &found.claims[i].path;
        // The claims, that is, the entries of packages for files, are in byte order of their
        // paths, so claims of one path are adjacent. The path is added at the first of them.
        let is_first = i == 0 || !found.claims[i - 1].path.compare(path).is_eq();
        if is_first && i < found.owners.len() {
            add_owner(path, found.owners[i], answer);
        }
    }
    answer.add_word(b"");
    add_flags(&found.owned, answer);
    if let Some(contested) = &found.contested {
        add_path(&contested.path, answer);
        answer.push(b":");
        answer.add_number(u128::from(contested.rivals.first));
        answer.push(b",");
        answer.add_number(u128::from(contested.rivals.second));
    }
}

/// Adds a path, and the index of the package that owns it.
fn add_owner(path: &FilePath<'_>, owner: Option<u32>, answer: &mut Answer) {
    add_path(path, answer);
    answer.push(b"=");
    match owner {
        Some(place) => answer.add_number(u128::from(place)),
        None => answer.push(b"?"),
    }
}

/// Adds a path as a further word: its folder and its name, joined by a slash.
fn add_path(path: &FilePath<'_>, answer: &mut Answer) {
    answer.add_word(path.folder);
    if !path.folder.is_empty() {
        answer.push(b"/");
    }
    answer.push(path.name)
}
