//! Answers questions about `db_core`: packages are added to a database and removed from it, and
//! then packages and paths are looked up. Each row has the database, and the packages to be added,
//! that the rows before it left.

mod change;

use crate::databases::change::changed_database;
use crate::members::front_of_row;
use adb_schema::ReadFault;
use base_core::{Name, Words};
use db_core::Db;
use pkg_core::Front;
use row_lines::{Answer, Subject, value_named, word_at};
use std::alloc::{AllocError, Global};

// The greatest number of files that the databases of the rows have.
const MOST_FILES: usize = 100;

/// The kinds of questions, with what is answered; the README of this crate says more.
#[derive(Clone, Copy)]
enum Question {
    /// `start`: begins again with an empty database.
    Start,
    /// `package NAME VERSION PRIORITY FILES REPLACES ..`: a package that the next `change` adds.
    Package,
    /// `change FLAGS NAME ..`: adds packages, removes those of these names, and counts the
    /// packages.
    Change,
    /// `again`: whether the database has the same bytes if it is written again.
    Again,
    /// `find NAME`: the index of the package with this name.
    Find,
    /// `owner PATH`: the index of the package that lists this path.
    Owner,
}

// The words that questions begin with.
#[rattlefmt::skip]
const QUESTIONS: [(&[u8], Question); 6] = [
    (b"start", Question::Start),
    (b"package", Question::Package),
    (b"change", Question::Change),
    (b"again", Question::Again),
    (b"find", Question::Find),
    (b"owner", Question::Owner),
];

/// A database, and the packages that the next change adds.
#[derive(Drop)]
pub(crate) struct Installed {
    /// The bytes of the database, as the last change wrote it; no bytes at first.
    file: Vec<u8>,
    /// The fronts (headers and first blocks) of the packages that the next change adds, in the
    /// order of the rows. A bad package has no front.
    coming: Vec<Option<Front>>,
}

/// A number that is looked up in a database.
#[derive(Clone, Copy)]
enum LookUp<'a> {
    /// The number of its packages.
    Count,
    /// The index of the package with this name, counted from 0.
    Package(&'a [u8]),
    /// The index of the package that lists this path, counted from 0.
    Owner(&'a Name),
}

impl Installed {
    /// An empty database, to which the next change adds no packages.
    pub(crate) fn new(alloc: Global) -> Installed {
        Installed {
            file: Vec::new(alloc),
            coming: Vec::new(alloc),
        }
    }
}

impl Subject for Installed {
    /// Answers a question by its first word, on the database that the rows before have left.
    fn answer(
        &mut self,
        alloc: Global,
        words: &Words,
        answer: &mut Answer,
    ) -> Result<(), AllocError> {
        // What most questions are about: a name or a path.
        let subject = word_at(words, 1);
        match value_named(&QUESTIONS, word_at(words, 0)) {
            Some(Question::Start) => *self = Installed::new(alloc),
            Some(Question::Package) => self.coming.push(front_of_row(alloc, words)?)?,
            Some(Question::Change) => return self.change(alloc, words, answer),
            Some(Question::Again) => return self.change_nothing(alloc, words, answer),
            Some(Question::Find) => self.look_up(alloc, LookUp::Package(subject), answer),
            Some(Question::Owner) => return self.look_up_owner(alloc, subject, answer),
            None => answer.push(b"no question"),
        }
        Ok(())
    }
}

impl Installed {
    /// Answers `change FLAGS NAME ..`: writes the database after a change, and adds to the answer
    /// how many packages the new database has.
    fn change(
        &mut self,
        alloc: Global,
        words: &Words,
        answer: &mut Answer,
    ) -> Result<(), AllocError> {
        let flags = word_at(words, 1);
        // None if the change is refused.
        let changed = changed_database(alloc, &self.file, &self.coming, flags, words)?;
        self.coming.clear();
        match changed {
            Some(file) => {
                self.file = file;
                self.look_up(alloc, LookUp::Count, answer)
            }
            None => answer.push(b"refused"),
        }
        Ok(())
    }

    /// Answers `again`: whether a change that adds no package and removes none gives the same
    /// bytes.
    fn change_nothing(
        &self,
        alloc: Global,
        words: &Words,
        answer: &mut Answer,
    ) -> Result<(), AllocError> {
        // One set flag for each file; flags after the last file have no effect.
        let flags = [b'1'; MOST_FILES];
        // There is no word after `again`, so that no package is removed.
        let same = match changed_database(alloc, &self.file, &[], &flags, words)? {
            Some(file) => file == self.file,
            None => false,
        };
        answer.push(if same { b"same" } else { b"other" });
        Ok(())
    }

    /// Answers `owner PATH`: adds to the answer the index of the package that lists PATH.
    fn look_up_owner(
        &self,
        alloc: Global,
        path: &[u8],
        answer: &mut Answer,
    ) -> Result<(), AllocError> {
        match Name::read(alloc, path)? {
            Some(path) => self.look_up(alloc, LookUp::Owner(&path), answer),
            None => answer.push(b"no name"),
        }
        Ok(())
    }

    /// Adds to the answer a number of the database, or `none` if it has no such package. Out of
    /// memory gives no text: the answer fails.
    fn look_up(&self, alloc: Global, wanted: LookUp<'_>, answer: &mut Answer) {
        match Db::read(alloc, &self.file) {
            Ok(db) => {
                let number = match wanted {
                    LookUp::Count => Some(db.len()),
                    LookUp::Package(name) => db.find(name),
                    LookUp::Owner(path) => db.owner_of(path),
                };
                match number {
                    Some(number) => answer.add_number(number as u128),
                    None => answer.push(b"none"),
                }
            }
            Err(ReadFault::Bad(_)) => answer.push(b"bad"),
            Err(ReadFault::Memory) => answer.add_text(Err(AllocError)),
        }
    }
}
