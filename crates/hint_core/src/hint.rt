//! What a refusal is about, what its numbers stand for, and its cause. The numbers are places of
//! words, numbers of repositories and lines, and places of fields. The rules are in
//! `docs/commands.md`, "Hints".
ghost use Rattle.std.specs.Prelude.{◌≡◌};
ghost use Rattle.hint_core.specs.Hints.{cause_of, database_subject, subject_of};

use adb_view::{FieldName, Which};
use base_core::{Cause, Text};
use report_core::Refusal;

/// What a refusal is about. A place is that of a word of the command line, counted from 1.
#[derive(Clone, Copy)]
pub enum Subject {
    /// The word at this place.
    Word { place: u32 },
    /// The file that the word at this place names, which is absent.
    AbsentFile { place: u32 },
    /// What the word at this place names, which is not installed: a package, or a path.
    NotInstalled { place: u32 },
    /// The information of a package, which the word at this place has; it is missing if there is no
    /// such word.
    Information { place: u32 },
    /// The index of the repository with this number, counted from 1.
    Repository { number: u64 },
    /// The line with this number, counted from 1, of a file of the root.
    Line { file: HintFile, line: u64 },
    /// The database, which is in one of two files.
    Database,
    /// The database, which is absent.
    AbsentDatabase,
    /// A path that two packages list.
    SharedPath,
    /// The journal, which is no valid one.
    Journal,
    /// Repositories, which are used only if the command line allows it.
    Untrusted,
    /// The file of a package, which is absent.
    AbsentPackage,
    /// The file of a package, which is another one than its index lists.
    OtherPackage,
    /// Nothing that a hint explains.
    Nothing,
}

/// A text file of a root, of which refusals name lines.
#[derive(Clone, Copy)]
pub enum HintFile {
    /// `etc/apk/world`.
    World,
    /// `etc/apk/repositories`.
    Repositories,
    /// `lib/apk/db/installed`, which version 2 wrote.
    TextDatabase,
}

/// A hint: what a number of a refusal stands for, or what to do about the refusal. A place of a
/// word is counted from 1.
pub enum Hint {
    /// The word at this place.
    Word {
        place: u32,
        word: Text,
    },
    /// The word at this place names no file.
    AbsentFile {
        place: u32,
        word: Text,
    },
    /// No installed package owns the path that is the word at this place.
    Unowned {
        place: u32,
        word: Text,
    },
    /// The word at this place is no information of a package, or repeats an earlier one.
    Information {
        place: u32,
        word: Text,
    },
    /// There is no word at this place: the information of a package is missing.
    Missing {
        place: u32,
    },
    /// The index of the repository with this number has this path, and this line of the list names
    /// it.
    Repository {
        number: u64,
        line: u64,
        path: Text,
    },
    /// The text of the line with this number, counted from 1, of a file of the root.
    Line {
        file: HintFile,
        line: u64,
        text: Text,
    },
    /// The database is a container, or else a text.
    Database {
        is_container: bool,
    },
    /// There is no database.
    AbsentDatabase,
    /// What to do if two packages list a path: one has to replace files of the other.
    SharedPath,
    /// What to do with a journal that is no valid one.
    Journal,
    /// Which option allows the use of repositories.
    Untrusted,
    /// `fix` needs an index that lists the installed package.
    AbsentPackage,
    /// Why the file of a package is another one than its index lists.
    OtherPackage,
    /// The file may be damaged.
    Damaged,
    /// The file is none of the format that is read.
    Foreign,
    /// The field with this place (100 times the number of the table, plus its own) in a container.
    Field {
        place: u16,
        table: Which,
        name: FieldName,
    },
    /// The schema of a container is that of the objects of this table.
    Schema {
        table: Which,
    },
    /// The schema of a container is that of no table.
    UnknownSchema,
    /// No hint: the refusal has nothing to explain, or what a number stands for was not found.
    Nothing,
}

/// Drops the parts in one call, so that a function that gives up has one drop and not many.
impl Drop for Hint {
    fn drop(self) {
        match self {
            Hint::Word { place: _, word: _ } => {}
            Hint::AbsentFile { place: _, word: _ } => {}
            Hint::Unowned { place: _, word: _ } => {}
            Hint::Information { place: _, word: _ } => {}
            Hint::Missing { place: _ } => {}
            Hint::Repository {
                number: _,
                line: _,
                path: _,
            } => {}
            Hint::Line {
                file: _,
                line: _,
                text: _,
            } => {}
            Hint::Database { is_container: _ } => {}
            Hint::AbsentDatabase => {}
            Hint::SharedPath => {}
            Hint::Journal => {}
            Hint::Untrusted => {}
            Hint::AbsentPackage => {}
            Hint::OtherPackage => {}
            Hint::Damaged => {}
            Hint::Foreign => {}
            Hint::Field {
                place: _,
                table: _,
                name: _,
            } => {}
            Hint::Schema { table: _ } => {}
            Hint::UnknownSchema => {}
            Hint::Nothing => {}
        }
    }
}

/// The hints of a refusal: on what it is about, and on its cause.
#[derive(Drop)]
pub struct Hints {
    /// The hint on what the refusal is about.
    pub subject: Hint,
    /// The hint on the cause of the refusal.
    pub cause: Hint,
}

/// What a refusal is about.
pub(crate) fn subject_of(refusal: &Refusal) -> Subject
    ensures { result ≡ subject_of refusal.now }
{
    match refusal {
        Refusal::IntentBad { cause: _ } => Subject::Journal,
        // Refusals with the place of a word.
        Refusal::FileMissing { place } => Subject::AbsentFile { place: *place },
        Refusal::FileBad { place, cause: _ } => Subject::Word { place: *place },
        Refusal::TextBad { place, line: _ } => Subject::Word { place: *place },
        Refusal::VersionBad { place } => Subject::Word { place: *place },
        Refusal::NotInstalled { place } => Subject::NotInstalled { place: *place },
        Refusal::InfoBad { place } => Subject::Information { place: *place },
        // Refusals of the index of a repository.
        Refusal::IndexMissing { repository } => Subject::Repository {
            number: *repository,
        },
        Refusal::IndexBad {
            repository,
            cause: _,
        } => Subject::Repository {
            number: *repository,
        },
        // Refusals of a line of a file.
        Refusal::WorldBad { line } => Subject::Line {
            file: HintFile::World,
            line: *line,
        },
        Refusal::RepositoriesBad { line } => Subject::Line {
            file: HintFile::Repositories,
            line: *line,
        },
        Refusal::NoDatabase => Subject::AbsentDatabase,
        Refusal::Untrusted => Subject::Untrusted,
        // Refusals of the file of a package.
        Refusal::PackageMissing {
            name: _,
            version: _,
        } => Subject::AbsentPackage,
        Refusal::PackageDiffers {
            name: _,
            version: _,
            field: _,
            wanted: _,
            found: _,
        } => Subject::OtherPackage,
        Refusal::Owned {
            path: _,
            first: _,
            second: _,
        } => Subject::SharedPath,
        Refusal::DatabaseBad { cause } => database_subject(*cause),
        // Other refusals name nothing that a hint explains.
        _ => Subject::Nothing,
    }
}

// What the refusal of a database for this cause is about: a line of the text database, or else the
// database.
fn database_subject(cause: Cause) -> Subject
    ensures { result ≡ database_subject cause }
{
    match cause {
        Cause::TextLine { line } => Subject::Line {
            file: HintFile::TextDatabase,
            line,
        },
        _ => Subject::Database,
    }
}

/// The cause of a refusal, if it has one.
pub(crate) fn cause_of(refusal: &Refusal) -> Option<Cause>
    ensures { result ≡ cause_of refusal.now }
{
    match refusal {
        Refusal::IntentBad { cause } => Some(*cause),
        Refusal::FileBad { place: _, cause } => Some(*cause),
        Refusal::DatabaseBad { cause } => Some(*cause),
        Refusal::IndexBad {
            repository: _,
            cause,
        } => Some(*cause),
        Refusal::PackageBad {
            name: _,
            version: _,
            cause,
        } => Some(*cause),
        _ => None,
    }
}
