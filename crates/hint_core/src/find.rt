//! Finds what the numbers of a refusal stand for. In all functions, `found` and `text` have the
//! bytes of the file that the refusal is about, if it is about one and the file was found. The
//! rules are in `docs/commands.md`, "Hints".
ghost use Rattle.std.specs.Prelude.{◌≡◌, IfOk, Ok, Some, map, slice_get};
ghost use Rattle.std.specs.Option.{option_copied, option_map};
ghost use Rattle.dep_core.specs.Repositories.{repositories_of};
ghost use Rattle.dep_core.specs.World.{lines_of};
ghost use Rattle.hint_core.specs.Hints.{absent_database_hint, absent_file_hint, absent_package_hint, cause_hint, file_cause_hint, hint_of_cause, hints_by_words_and_subject_file, information_hint, line_hint, not_installed_hint, place_hint, repository_hint, schema_hint, subject_hint, word_hint};
ghost use Rattle.hint_core.specs.Repositories.{path_alone, repository_at};

use crate::hint::{Hint, HintFile, Hints, Subject, subject_of};
use crate::places::{place_hint, schema_hint};
use crate::telling::{asks_for_owner, is_fix};
use base_core::{Cause, Text, Words};
use dep_core::{Repos, ReposFault};
use report_core::Refusal;
use std::alloc::{AllocError, Global};
use words_core::word_at;

/// The hints of a refusal: on what it is about, and on its cause. `found` has the bytes of the file
/// that it is about, if it is about one and the file was found.
pub fn hints(
    alloc: Global,
    words: &Words,
    refusal: &Refusal,
    found: Option<&[u8]>,
) -> Result<Hints, AllocError>
    ensures { IfOk result (λ hints. hints
        ≡ hints_by_words_and_subject_file words.now refusal.now (option_copied found.entry)) }
{
    let subject = subject_hint(alloc, words, subject_of(refusal), found)?;
    let cause = cause_hint(refusal);
    Ok(Hints { subject, cause })
}

// The hint on the cause of a refusal; none if it has no cause.
fn cause_hint(refusal: &Refusal) -> Hint
    ensures { result ≡ cause_hint refusal.now }
{
    match refusal {
        // The journal entry and the database are no files that can be copied or made again.
        Refusal::IntentBad { cause } | Refusal::DatabaseBad { cause } => hint_of_cause(*cause),
        // The file that a word names, an index or a package can be.
        Refusal::FileBad { place: _, cause }
        | Refusal::IndexBad {
            repository: _,
            cause,
        }
        | Refusal::PackageBad {
            name: _,
            version: _,
            cause,
        } => file_cause_hint(*cause),
        _ => Hint::Nothing,
    }
}

// The hint on why a file was refused that can be copied or made again.
fn file_cause_hint(cause: Cause) -> Hint
    ensures { result ≡ file_cause_hint cause }
{
    match cause {
        // The file has another format.
        Cause::NotAdb | Cause::Compressed => Hint::Foreign,
        // The file ends too early, or has other contents than it lists.
        Cause::Truncated { at: _ }
        | Cause::DataSize {
            wanted: _,
            found: _,
        }
        | Cause::HashDiffers {
            wanted: _,
            found: _,
        } => Hint::Damaged,
        _ => hint_of_cause(cause),
    }
}

// The hint on the number that a cause names: a field, or a schema; otherwise none.
fn hint_of_cause(cause: Cause) -> Hint
    ensures { result ≡ hint_of_cause cause }
{
    match cause {
        Cause::BadText { place } => place_hint(place),
        Cause::Repeated {
            place,
            first: _,
            second: _,
        } => place_hint(place),
        Cause::WrongSchema { found } => schema_hint(found),
        _ => Hint::Nothing,
    }
}

// The hint on what a refusal is about, given the bytes of the file that it is about (`found`).
fn subject_hint(
    alloc: Global,
    words: &Words,
    subject: Subject,
    found: Option<&[u8]>,
) -> Result<Hint, AllocError>
    ensures { IfOk result (λ hint. hint
        ≡ subject_hint words.now (option_copied found.entry) subject) }
{
    match subject {
        Subject::Word { place } => word_hint(alloc, place, word_at(words, place)),
        Subject::AbsentFile { place } => absent_file_hint(alloc, place, word_at(words, place)),
        // The word is a path if the words ask for its owner, and else the name of a package.
        Subject::NotInstalled { place } => {
            let is_owner_asked = asks_for_owner(alloc, words)?;
            not_installed_hint(alloc, is_owner_asked, place, word_at(words, place))
        }
        Subject::Information { place } => information_hint(alloc, place, word_at(words, place)),
        Subject::Repository { number } => repository_hint(alloc, number, found),
        Subject::Line { file, line } => line_hint(alloc, file, line, found),
        // The database is in the container if that was found, and else in the text.
        Subject::Database => Ok(Hint::Database {
            is_container: found.is_some(),
        }),
        Subject::AbsentDatabase => Ok(absent_database_hint(found.is_some())),
        Subject::SharedPath => Ok(Hint::SharedPath),
        Subject::Journal => Ok(Hint::Journal),
        Subject::Untrusted => Ok(Hint::Untrusted),
        Subject::AbsentPackage => Ok(absent_package_hint(is_fix(alloc, words)?)),
        Subject::OtherPackage => Ok(Hint::OtherPackage),
        Subject::Nothing => Ok(Hint::Nothing),
    }
}

// The hint that there is no database; none if one is found now.
fn absent_database_hint(is_found: bool) -> Hint
    ensures { result ≡ absent_database_hint is_found }
{
    if is_found {
        Hint::Nothing
    } else {
        Hint::AbsentDatabase
    }
}

// The hint on the absent file of a package; only `fix` gets one, since it needs an index that lists
// the installed package.
fn absent_package_hint(is_fix: bool) -> Hint
    ensures { result ≡ absent_package_hint is_fix }
{
    if is_fix {
        Hint::AbsentPackage
    } else {
        Hint::Nothing
    }
}

// The hint on the word at a place, if there is such a word.
fn word_hint(alloc: Global, place: u32, word: Option<&[u8]>) -> Result<Hint, AllocError>
    ensures { IfOk result (λ hint. hint
        ≡ word_hint place (option_map (λ w. w.now) word.entry)) }
{
    match word {
        Some(word) => Ok(Hint::Word {
            place,
            word: Text::of(alloc, word)?,
        }),
        None => Ok(Hint::Nothing),
    }
}

// The hint that the word at a place names no file, if there is such a word.
fn absent_file_hint(alloc: Global, place: u32, word: Option<&[u8]>) -> Result<Hint, AllocError>
    ensures { IfOk result (λ hint. hint
        ≡ absent_file_hint place (option_map (λ w. w.now) word.entry)) }
{
    match word {
        Some(word) => Ok(Hint::AbsentFile {
            place,
            word: Text::of(alloc, word)?,
        }),
        None => Ok(Hint::Nothing),
    }
}

// The hint that the word at a place is a path that no package owns, or else names a package that is
// not installed; none if there is no such word.
fn not_installed_hint(
    alloc: Global,
    is_owner_asked: bool,
    place: u32,
    word: Option<&[u8]>,
) -> Result<Hint, AllocError>
    ensures { IfOk result (λ hint. hint
        ≡ not_installed_hint is_owner_asked place (option_map (λ w. w.now) word.entry)) }
{
    if !is_owner_asked {
        return word_hint(alloc, place, word);
    }
    match word {
        Some(word) => Ok(Hint::Unowned {
            place,
            word: Text::of(alloc, word)?,
        }),
        None => Ok(Hint::Nothing),
    }
}

// The hint that the word at a place is no valid information of a package; or, without a word, that
// information is missing.
fn information_hint(alloc: Global, place: u32, word: Option<&[u8]>) -> Result<Hint, AllocError>
    ensures { IfOk result (λ hint. hint
        ≡ information_hint place (option_map (λ w. w.now) word.entry)) }
{
    match word {
        Some(word) => Ok(Hint::Information {
            place,
            word: Text::of(alloc, word)?,
        }),
        None => Ok(Hint::Missing { place }),
    }
}

// The hint on the repository with a number, by the text of the list of repositories; none if it is
// not found.
fn repository_hint(alloc: Global, number: u64, text: Option<&[u8]>) -> Result<Hint, AllocError>
    ensures { IfOk result (λ hint. hint
        ≡ repository_hint number (option_copied text.entry)) }
{
    let Some(text) = text else {
        return Ok(Hint::Nothing);
    };
    match repository_at(alloc, number, text)? {
        Some(found) => Ok(Hint::Repository {
            number,
            line: found.line,
            path: found.path,
        }),
        None => Ok(Hint::Nothing),
    }
}

/// A repository: the path of its index, and the line of the list that names it.
#[derive(Drop)]
pub(crate) struct RepositoryLine {
    /// The number of the line, counted from 1.
    pub(crate) line: u64,
    /// The path of the index.
    pub(crate) path: Text,
}

// The repository with a number, counted from 1, in the text of a list. None if there are fewer, or
// if its line or one before it is bad.
fn repository_at(
    alloc: Global,
    number: u64,
    text: &[u8],
) -> Result<Option<RepositoryLine>, AllocError>
    ensures { IfOk result (λ found. found ≡ repository_at number 1 (lines_of text.now)) }
{
    // The number of the repository among those of the lines that are left.
    let mut left = number;
    let mut line = 0;
    for part in text.split(|byte| *byte == b'\n') {
        line += 1;
        match path_alone(alloc, part)? {
            PathAlone::Bad => return Ok(None),
            PathAlone::Skipped => {}
            PathAlone::Path(path) if left == 1 => return Ok(Some(RepositoryLine { line, path })),
            PathAlone::Path(_) => left = left.saturating_sub(1),
        }
    }
    Ok(None)
}

/// The result of reading a line of the list of repositories alone.
#[derive(Drop)]
pub(crate) enum PathAlone {
    /// The line names a repository, whose index has this path.
    Path(Text),
    /// The line names none, as an empty line.
    Skipped,
    /// The line is bad.
    Bad,
}

// The result of reading a line of the list of repositories alone.
fn path_alone(alloc: Global, line: &[u8]) -> Result<PathAlone, AllocError>
    ensures { IfOk result (λ found. found ≡ path_alone (repositories_of line.now)) }
{
    let repos = match Repos::read(alloc, line) {
        Ok(repos) => repos,
        Err(ReposFault::Bad { line: _ }) => return Ok(PathAlone::Bad),
        Err(ReposFault::Memory) => return Err(AllocError),
    };
    if repos.is_empty() {
        return Ok(PathAlone::Skipped);
    }
    let path = Text::of(alloc, repos.path(0).as_bytes())?;
    Ok(PathAlone::Path(path))
}

// The hint on the line with a number, counted from 1, by the text of its file; none if there is no
// such line.
fn line_hint(
    alloc: Global,
    file: HintFile,
    line: u64,
    text: Option<&[u8]>,
) -> Result<Hint, AllocError>
    ensures { IfOk result (λ hint. hint ≡ line_hint file line (option_copied text.entry)) }
{
    let Some(text) = text else {
        return Ok(Hint::Nothing);
    };
    match line_at(text, line.saturating_sub(1)) {
        Some(found) => Ok(Hint::Line {
            file,
            line,
            text: Text::of(alloc, found)?,
        }),
        None => Ok(Hint::Nothing),
    }
}

// The line of a text that this many lines precede, if there is one.
fn line_at(text: &[u8], before: u64) -> Option<&[u8]>
    ensures { option_map (λ line. line.now) result ≡ slice_get (lines_of text.now) before }
{
    // How many lines are still before the one that is looked for.
    let mut left = before;
    for line in text.split(|byte| *byte == b'\n') {
        if left == 0 {
            return Some(line);
        }
        left -= 1;
    }
    None
}
