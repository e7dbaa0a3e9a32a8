//! Why a command is refused: the type that commands return, and whose line is printed. The rules
//! are in `docs/commands.md`, "Error lines", and in the section of each command, in the order in
//! which refusals are tested.
use base_core::{Cause, Name, Text};

/// Why a command is refused. The variants are in the order in which they are tested; file operands
/// are tested one by one. `place` is the number of a word in the command line, counted from 1
/// without the program's name. `line` and `repository` count from 1 too.
pub enum Refusal {
    /// The words of the command line do not follow the grammar (apk(8)): `place` is that of the
    /// first wrong word, or the place after the last word if a word is missing.
    Usage {
        // The place of the word in the command line.
        place: u32,
    },
    /// The intent (`lib/apk/intent`) of an interrupted change fails a test of containers.
    IntentBad {
        // Why the file is refused.
        cause: Cause,
    },
    /// The file that this word names is absent.
    FileMissing {
        // The place of the word in the command line.
        place: u32,
    },
    /// The file that this word names fails a test of containers (apk-v3(5)).
    FileBad {
        // The place of the word in the command line.
        place: u32,
        // Why the file is refused.
        cause: Cause,
    },
    /// The file that this word names is no dump text (adb(5)): `line` is the first line that cannot
    /// follow the lines before it, or the line after the last one if another must follow.
    TextBad {
        // The place of the word in the command line.
        place: u32,
        // The number of the line in the file.
        line: u64,
    },
    /// This word is no version (apk-package(5)).
    VersionBad {
        // The place of the word in the command line.
        place: u32,
    },
    /// This word is a value of `-I` of `mkpkg` that is not allowed. Or a name or a version is
    /// missing; then `place` is the place after the last word.
    InfoBad {
        // The place of the word in the command line.
        place: u32,
    },
    /// The root has no package database.
    NoDatabase,
    /// The package database fails a test of containers, or of text databases.
    DatabaseBad {
        // Why the file is refused.
        cause: Cause,
    },
    /// The world (apk-world(5)) has an entry on this line that is no dependency, or that repeats a
    /// name.
    WorldBad {
        // The number of the line in `etc/apk/world`.
        line: u64,
    },
    /// This line of the list of repositories (`etc/apk/repositories`) names no repository.
    RepositoriesBad {
        // The number of the line in `etc/apk/repositories`.
        line: u64,
    },
    /// The list of repositories is not empty, and `--allow-untrusted` is not given.
    Untrusted,
    /// The index of this repository is absent.
    IndexMissing {
        // The number of the repository.
        repository: u64,
    },
    /// The index of this repository fails a test of containers.
    IndexBad {
        // The number of the repository.
        repository: u64,
        // Why the file is refused.
        cause: Cause,
    },
    /// There are more candidates (packages that are installed or in an index) than are allowed.
    TooMany {
        // How many candidates there are at least.
        count: u64,
    },
    /// The package that this word names is not installed (for `del`: and not in world); or no
    /// package owns the path that this word names.
    NotInstalled {
        // The place of the word in the command line.
        place: u32,
    },
    /// No selection of packages satisfies the new world.
    Unsatisfied,
    /// The file of this package is absent, or the path of this file is no valid name.
    PackageMissing {
        // The name of the package.
        name: Text,
        // The version of the package.
        version: Text,
    },
    /// The file of this package fails a test of containers.
    PackageBad {
        // The name of the package.
        name: Text,
        // The version of the package.
        version: Text,
        // Why the file is refused.
        cause: Cause,
    },
    /// The file of this package has another id (`field` 3), name (1) or version (2) than the entry
    /// in the index. The numbers are those of table 3 in `docs/formats.md`, "Schemas".
    PackageDiffers {
        // The name of the package.
        name: Text,
        // The version of the package.
        version: Text,
        // The number of the field that differs.
        field: u16,
        // The value of this field in the index.
        wanted: Text,
        // The value of this field in the package file.
        found: Text,
    },
    /// The package has a script that the change would run, and `--no-scripts` is not given.
    /// `script` is its number in table 6 of `docs/formats.md`, "Schemas": 1 is the trigger, 2
    /// pre-install, 3 post-install, 4 pre-deinstall, 5 post-deinstall, 6 pre-upgrade, 7
    /// post-upgrade.
    ScriptNeeded {
        // The name of the package.
        name: Text,
        // The number of the script.
        script: u16,
    },
    /// The path of an output, or a path that an added package lists, is reserved for `apk` itself.
    Reserved {
        // The reserved path.
        path: Name,
    },
    /// The path of one file would be a folder of the path of another file.
    PathClash {
        // The path of the first file, which would also be a folder.
        path: Name,
        // The path of the other file, which is below the first path.
        other: Name,
    },
    /// Several packages list this path, but none of them owns it.
    Owned {
        // The path that both packages list.
        path: Name,
        // The name of the first package that lists the path.
        first: Text,
        // The name of the other package.
        second: Text,
    },
    /// The trigger of this package is due, and `--no-scripts` is not given.
    TriggerNeeded {
        // The name of the package.
        name: Text,
    },
    /// The data to be written has more bytes or values than a container may have.
    ResultTooLarge {
        // The count of bytes just after the first value that exceeded a limit.
        bytes: u64,
        // The count of values just after the first value that exceeded a limit.
        values: u64,
    },
}

/// Drops the parts in one call, so that a function that gives up has one drop and not many.
impl Drop for Refusal {
    fn drop(self) {
        match self {
            Refusal::Usage { place: _ } => {}
            Refusal::IntentBad { cause: _ } => {}
            Refusal::FileMissing { place: _ } => {}
            Refusal::FileBad { place: _, cause: _ } => {}
            Refusal::TextBad { place: _, line: _ } => {}
            Refusal::VersionBad { place: _ } => {}
            Refusal::InfoBad { place: _ } => {}
            Refusal::NoDatabase => {}
            Refusal::DatabaseBad { cause: _ } => {}
            Refusal::WorldBad { line: _ } => {}
            Refusal::RepositoriesBad { line: _ } => {}
            Refusal::Untrusted => {}
            Refusal::IndexMissing { repository: _ } => {}
            Refusal::IndexBad {
                repository: _,
                cause: _,
            } => {}
            Refusal::TooMany { count: _ } => {}
            Refusal::NotInstalled { place: _ } => {}
            Refusal::Unsatisfied => {}
            Refusal::PackageMissing {
                name: _,
                version: _,
            } => {}
            Refusal::PackageBad {
                name: _,
                version: _,
                cause: _,
            } => {}
            Refusal::PackageDiffers {
                name: _,
                version: _,
                field: _,
                wanted: _,
                found: _,
            } => {}
            Refusal::ScriptNeeded { name: _, script: _ } => {}
            Refusal::Reserved { path: _ } => {}
            Refusal::PathClash { path: _, other: _ } => {}
            Refusal::Owned {
                path: _,
                first: _,
                second: _,
            } => {}
            Refusal::TriggerNeeded { name: _ } => {}
            Refusal::ResultTooLarge {
                bytes: _,
                values: _,
            } => {}
        }
    }
}
