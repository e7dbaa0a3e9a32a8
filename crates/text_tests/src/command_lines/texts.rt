//! The error lines of refusals with their causes, and the texts of reports. The lines are in
//! `docs/commands.md`, "Error lines".
use crate::command_lines::add_written;
use base_core::{Cause, Digest, Name, Text, Words};
use report_core::{Refusal, Report, write_error};
use row_lines::{Answer, number_of, value_named, word_at, words_behind};
use std::alloc::{AllocError, Global};
use tree_memory::MemorySink;

/// Answers `report WORD ..`: adds a report made of these words, one after another. A word of digits
/// is a number in it, another one is text.
pub(crate) fn add_report(
    alloc: Global,
    words: &Words,
    answer: &mut Answer,
) -> Result<(), AllocError> {
    let mut report = Report::new(alloc);
    for i in 0..words.len() {
        let outcome = match number_of(words.word(i)) {
            Some(number) => report.number(number),
            None => report.push(words.word(i)),
        };
        outcome?;
    }
    answer.push(report.bytes());
    Ok(())
}

/// Answers `refusal NAME FIELD ..`: adds the error line of the refusal with this name and these
/// fields.
pub(crate) fn add_refusal(alloc: Global, words: &Words, answer: &mut Answer) {
    match refusal_of(alloc, words) {
        Ok(Some(refusal)) => add_error_line(alloc, &refusal, answer),
        Ok(None) => answer.push(b"no refusal"),
        Err(fault) => answer.add_text(Err(fault)),
    }
}

/// Adds the error line of a refusal.
fn add_error_line(alloc: Global, refusal: &Refusal, answer: &mut Answer) {
    let mut sink = MemorySink::new(alloc);
    let outcome = write_error(refusal, &mut sink);
    add_written(&sink, outcome, answer)
}

/// The variant of a refusal, without its fields, as a row names it.
#[derive(Clone, Copy)]
enum Named {
    Usage,
    FileMissing,
    TextBad,
    VersionBad,
    InfoBad,
    NotInstalled,
    WorldBad,
    RepositoriesBad,
    IndexMissing,
    TooMany,
    ResultTooLarge,
    NoDatabase,
    Untrusted,
    Unsatisfied,
    IntentBad,
    DatabaseBad,
    IndexBad,
    FileBad,
    PackageMissing,
    PackageBad,
    PackageDiffers,
    ScriptNeeded,
    TriggerNeeded,
    Reserved,
    PathClash,
    Owned,
}

// The text by which a row names each variant of a refusal.
#[rattlefmt::skip]
const REFUSALS: [(&[u8], Named); 26] = [
    (b"usage", Named::Usage),
    (b"file-missing", Named::FileMissing),
    (b"text-bad", Named::TextBad),
    (b"version-bad", Named::VersionBad),
    (b"info-bad", Named::InfoBad),
    (b"not-installed", Named::NotInstalled),
    (b"world-bad", Named::WorldBad),
    (b"repositories-bad", Named::RepositoriesBad),
    (b"index-missing", Named::IndexMissing),
    (b"too-many", Named::TooMany),
    (b"result-too-large", Named::ResultTooLarge),
    (b"no-database", Named::NoDatabase),
    (b"untrusted", Named::Untrusted),
    (b"unsatisfied", Named::Unsatisfied),
    (b"intent-bad", Named::IntentBad),
    (b"database-bad", Named::DatabaseBad),
    (b"index-bad", Named::IndexBad),
    (b"file-bad", Named::FileBad),
    (b"package-missing", Named::PackageMissing),
    (b"package-bad", Named::PackageBad),
    (b"package-differs", Named::PackageDiffers),
    (b"script-needed", Named::ScriptNeeded),
    (b"trigger-needed", Named::TriggerNeeded),
    (b"reserved", Named::Reserved),
    (b"path-clash", Named::PathClash),
    (b"owned", Named::Owned),
];

/// The refusal that the words of a row describe, its name and its fields; None if they describe
/// none.
fn refusal_of(alloc: Global, words: &Words) -> Result<Option<Refusal>, AllocError> {
    let Some(named) = value_named(&REFUSALS, word_at(words, 0)) else {
        return Ok(None);
    };
    match named {
        Named::IntentBad | Named::DatabaseBad | Named::IndexBad | Named::FileBad => {
            refusal_with_cause(alloc, named, words)
        }
        Named::PackageMissing
        | Named::PackageBad
        | Named::PackageDiffers
        | Named::ScriptNeeded
        | Named::TriggerNeeded => refusal_of_package(alloc, named, words),
        Named::Reserved | Named::PathClash | Named::Owned => refusal_of_path(alloc, named, words),
        _ => Ok(refusal_with_numbers(named, words)),
    }
}

/// A refusal that has only numbers as fields, or no fields; None for another refusal.
fn refusal_with_numbers(named: Named, words: &Words) -> Option<Refusal> {
    // The first field, as a number of 64 bits or as the position of an argument.
    let number = u64_at(words, 1);
    let place = u32_at(words, 1);
    let refusal = match named {
        Named::Usage => Refusal::Usage { place },
        Named::FileMissing => Refusal::FileMissing { place },
        Named::TextBad => Refusal::TextBad {
            place,
            line: u64_at(words, 2),
        },
        Named::VersionBad => Refusal::VersionBad { place },
        Named::InfoBad => Refusal::InfoBad { place },
        Named::NotInstalled => Refusal::NotInstalled { place },
        Named::WorldBad => Refusal::WorldBad { line: number },
        Named::RepositoriesBad => Refusal::RepositoriesBad { line: number },
        Named::IndexMissing => Refusal::IndexMissing { repository: number },
        Named::TooMany => Refusal::TooMany { count: number },
        Named::ResultTooLarge => Refusal::ResultTooLarge {
            bytes: number,
            values: u64_at(words, 2),
        },
        Named::NoDatabase => Refusal::NoDatabase,
        Named::Untrusted => Refusal::Untrusted,
        Named::Unsatisfied => Refusal::Unsatisfied,
        _ => return None,
    };
    Some(refusal)
}

/// A refusal that has a cause, by the words of a row; None if the words after its other fields are
/// no cause.
fn refusal_with_cause(
    alloc: Global,
    named: Named,
    words: &Words,
) -> Result<Option<Refusal>, AllocError> {
    // The index of the word that names the cause: it follows the name of the refusal, and the one
    // other field that two of these refusals have.
    let cause_index = match named {
        Named::FileBad | Named::IndexBad => 2,
        _ => 1,
    };
    let rest = words_behind(alloc, words, cause_index)?;
    let Some(cause) = cause_of(&rest) else {
        return Ok(None);
    };
    // The first field, as the place of an argument or as the number of a repository.
    let place = u32_at(words, 1);
    let repository = u64_at(words, 1);
    Ok(Some(match named {
        Named::IntentBad => Refusal::IntentBad { cause },
        Named::DatabaseBad => Refusal::DatabaseBad { cause },
        Named::IndexBad => Refusal::IndexBad { repository, cause },
        _ => Refusal::FileBad { place, cause },
    }))
}

/// The refusal of a package's file, or of a script or a trigger that would run without
/// `--no-scripts`. The words of the row are the name of the refusal and the package's name, and
/// then the package's version or the number of the script. Further fields follow. None for a bad
/// file if the further words are no cause.
fn refusal_of_package(
    alloc: Global,
    named: Named,
    words: &Words,
) -> Result<Option<Refusal>, AllocError> {
    let name = Text::of(alloc, word_at(words, 1))?;
    let version = Text::of(alloc, word_at(words, 2))?;
    match named {
        Named::ScriptNeeded => Ok(Some(Refusal::ScriptNeeded {
            name,
            script: u16_at(words, 2),
        })),
        Named::TriggerNeeded => Ok(Some(Refusal::TriggerNeeded { name })),
        Named::PackageMissing => Ok(Some(Refusal::PackageMissing { name, version })),
        Named::PackageBad => match cause_of(&words_behind(alloc, words, 3)?) {
            Some(cause) => Ok(Some(Refusal::PackageBad {
                name,
                version,
                cause,
            })),
            None => Ok(None),
        },
        // The number of the field that differs, and its value in the index and in the file.
        _ => Ok(Some(Refusal::PackageDiffers {
            name,
            version,
            field: u16_at(words, 3),
            wanted: Text::of(alloc, word_at(words, 4))?,
            found: Text::of(alloc, word_at(words, 5))?,
        })),
    }
}

/// The refusal of a path that is reserved, that is a folder of another file, or that two packages
/// list, by the words of a row. None if a path is no valid name.
fn refusal_of_path(
    alloc: Global,
    named: Named,
    words: &Words,
) -> Result<Option<Refusal>, AllocError> {
    let Some(path) = Name::read(alloc, word_at(words, 1))? else {
        return Ok(None);
    };
    match named {
        Named::Reserved => Ok(Some(Refusal::Reserved { path })),
        Named::Owned => Ok(Some(Refusal::Owned {
            path,
            first: Text::of(alloc, word_at(words, 2))?,
            second: Text::of(alloc, word_at(words, 3))?,
        })),
        // A clash has a second path.
        _ => match Name::read(alloc, word_at(words, 2))? {
            Some(other) => Ok(Some(Refusal::PathClash { path, other })),
            None => Ok(None),
        },
    }
}

/// The variant of a cause, without its fields, as a row names it.
#[derive(Clone, Copy)]
enum NamedCause {
    NotAdb,
    Compressed,
    CompatVersion,
    Truncated,
    BlockOrder,
    TextLine,
    DataSize,
    HashDiffers,
    WrongSchema,
    Outside,
    WrongKind,
    TooLarge,
    BadText,
    Repeated,
    DataOrder,
}

// The text by which a row names each variant of a cause.
#[rattlefmt::skip]
const CAUSES: [(&[u8], NamedCause); 15] = [
    (b"not-adb", NamedCause::NotAdb),
    (b"compressed", NamedCause::Compressed),
    (b"compat-version", NamedCause::CompatVersion),
    (b"truncated", NamedCause::Truncated),
    (b"block-order", NamedCause::BlockOrder),
    (b"text-line", NamedCause::TextLine),
    (b"data-size", NamedCause::DataSize),
    (b"hash-differs", NamedCause::HashDiffers),
    (b"wrong-schema", NamedCause::WrongSchema),
    (b"outside", NamedCause::Outside),
    (b"wrong-kind", NamedCause::WrongKind),
    (b"too-large", NamedCause::TooLarge),
    (b"bad-text", NamedCause::BadText),
    (b"repeated", NamedCause::Repeated),
    (b"data-order", NamedCause::DataOrder),
];

/// The cause that these words describe: its name, and its fields in order. None if there is no
/// cause with this name, or a digest has a wrong length.
fn cause_of(words: &Words) -> Option<Cause> {
    // The first field, as a number of 64, of 32 or of 16 bits.
    let long = u64_at(words, 1);
    let int = u32_at(words, 1);
    let place = u16_at(words, 1);
    let cause = match value_named(&CAUSES, word_at(words, 0))? {
        NamedCause::NotAdb => Cause::NotAdb,
        NamedCause::Compressed => Cause::Compressed,
        NamedCause::CompatVersion => Cause::CompatVersion,
        NamedCause::Truncated => Cause::Truncated { at: long },
        NamedCause::BlockOrder => Cause::BlockOrder { at: long },
        NamedCause::TextLine => Cause::TextLine { line: long },
        NamedCause::WrongSchema => Cause::WrongSchema { found: int },
        NamedCause::Outside => Cause::Outside { word: int },
        NamedCause::WrongKind => Cause::WrongKind { word: int },
        NamedCause::TooLarge => Cause::TooLarge { count: int },
        NamedCause::BadText => Cause::BadText { place },
        NamedCause::Repeated => Cause::Repeated {
            place,
            first: u32_at(words, 2),
            second: u32_at(words, 3),
        },
        NamedCause::DataOrder => Cause::DataOrder {
            expected: (int, u32_at(words, 2)),
            found: (u32_at(words, 3), u32_at(words, 4)),
        },
        NamedCause::DataSize => Cause::DataSize {
            wanted: long,
            found: u64_at(words, 2),
        },
        NamedCause::HashDiffers => return cause_of_digests(words),
    };
    Some(cause)
}

/// The cause that a hash differs: the wanted digest and the found one follow its name.
fn cause_of_digests(words: &Words) -> Option<Cause> {
    Some(Cause::HashDiffers {
        wanted: digest_of(word_at(words, 1))?,
        found: digest_of(word_at(words, 2))?,
    })
}

/// The digest of these bytes, by their length: SHA-1 of 20, SHA-256 of 32 and SHA-512 of 64
/// (`docs/formats.md`, "The other blocks"); None for another length, so that the row is `no
/// refusal`.
fn digest_of(bytes: &[u8]) -> Option<Digest> {
    // Each conversion succeeds only for the number of bytes of its digest.
    if let Ok(bytes) = bytes.try_into() {
        return Some(Digest::Sha1(bytes));
    }
    if let Ok(bytes) = bytes.try_into() {
        return Some(Digest::Sha256(bytes));
    }
    match bytes.try_into() {
        Ok(bytes) => Some(Digest::Sha512(bytes)),
        Err(_) => None,
    }
}

/// The number that the word at an index, counted from 0, is; 0 if it is no number of 64 bits.
fn u64_at(words: &Words, i: usize) -> u64 {
    u64::try_from(number_of(word_at(words, i)).unwrap_or(0)).unwrap_or(0)
}

/// The number that the word at an index is; 0 if it is no number of 32 bits.
fn u32_at(words: &Words, i: usize) -> u32 {
    u32::try_from(u64_at(words, i)).unwrap_or(0)
}

/// The number that the word at an index is; 0 if it is no number of 16 bits.
fn u16_at(words: &Words, i: usize) -> u16 {
    u16::try_from(u64_at(words, i)).unwrap_or(0)
}
