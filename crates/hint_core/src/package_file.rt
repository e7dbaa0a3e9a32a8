//! The file of a package that a refusal names: its path beside the index of each repository, and
//! which of its files the positions in `contents A.B where C.D was expected` are. The rules are in
//! `docs/commands.md`, "Hints".
ghost use Rattle.std.specs.Prelude.{◌≡◌, ◌⊎◌, ◌++◌, [], ℕ, List, IfOk, OnOk};
ghost use Rattle.base_core.specs.Read.{OnlyReads};
ghost use Rattle.base_core.specs.Sink.{sink_before_and_after};
ghost use Rattle.dep_core.specs.Repositories.{repositories_of};
ghost use Rattle.report_core.specs.Reports.{name_dash_version};
ghost use Rattle.root_names.specs.PackagePath.{package_path};
ghost use Rattle.hint_core.specs.PackageFile.{ExplainsBeside, ExplainsByText, ExplainsPackageRefusal, ExplainsPackage, ExplainsPackageFile, ExplainsRepositories, package_file_line};
ghost use Rattle.hint_core.specs.Repositories.{no_index_line};
ghost use Rattle.hint_core.specs.Lines.{printed_bytes, printed_text};
ghost use Rattle.hint_core.specs.Told.{Tells};

use crate::contents::lines_of_contents;
use crate::printed::{printed, push_printed, push_texts};
use crate::telling::{HintFault, is_explained};
use crate::warning::{text_of_found, write_lines};
use base_core::{Name, Sink, Tree, TreeFault, Words, consecutive_reads_compose, read_all};
use dep_core::{Repos, ReposFault};
use report_core::Refusal;
use root_names::{package_file_beside, package_path, repositories_name};
use std::alloc::{AllocError, Global};

/// Writes where the file of a package is looked for that a refusal names: the path beside the index
/// of each repository. If the refusal names positions of files, the lines say too which files of
/// the package at this path they are. The list of repositories is read once, and so is the front of
/// each package; nothing of the tree is changed.
///
/// # Errors
///
/// `Disk` or `Memory`, and nothing was written; or `Sink`, and a prefix of the lines was.
pub fn explain_package<T: Tree, S: Sink>(
    alloc: Global,
    words: &Words,
    refusal: &Refusal,
    tree: &mut T,
    sink: &mut S,
) -> Result<(), HintFault>
    // The lines are those of the tree as it is. If the call fails, nothing was written, or a prefix
    // of them.
    ensures told { (lines : List ℕ)
        × ((lines ≡ []) ⊎ ExplainsPackageFile words.now refusal.now (T.history tree.old) lines)
        × OnOk result (ExplainsPackageFile words.now refusal.now (T.history tree.old) lines)
        × Tells lines (sink_before_and_after S.bytes S.counts sink.old sink.new) result }
    // The tree is only read.
    ensures tree { OnlyReads HintFault.Disk (T.history tree.old) (T.history tree.new)
        (T.counts tree.old) (T.counts tree.new) result }
{
    let lines = lines_of_words(alloc, words, refusal, tree)?;
    write_lines(&lines, sink)
}

// The lines on the file of the package that a refusal of a command line names.
fn lines_of_words<T: Tree>(
    alloc: Global,
    words: &Words,
    refusal: &Refusal,
    tree: &mut T,
) -> Result<Vec<u8>, TreeFault>
    ensures lines { IfOk result (λ lines.
        ExplainsPackageFile words.now refusal.now (T.history tree.old) lines.items) }
    // The tree is only read.
    ensures tree { OnlyReads TreeFault.Disk (T.history tree.old) (T.history tree.new)
        (T.counts tree.old) (T.counts tree.new) result }
{
    if !is_explained(alloc, words)? {
        return Ok(Vec::new(alloc));
    }
    lines_of_refusal(alloc, refusal, tree)
}

// The lines on the file of the package that a refusal names; none if it names none.
fn lines_of_refusal<T: Tree>(
    alloc: Global,
    refusal: &Refusal,
    tree: &mut T,
) -> Result<Vec<u8>, TreeFault>
    ensures lines { IfOk result (λ lines.
        ExplainsPackageRefusal refusal.now (T.history tree.old) lines.items) }
    // The tree is only read.
    ensures tree { OnlyReads TreeFault.Disk (T.history tree.old) (T.history tree.new)
        (T.counts tree.old) (T.counts tree.new) result }
{
    match refusal {
        Refusal::PackageMissing { name, version }
        | Refusal::PackageBad {
            name,
            version,
            cause: _,
        }
        | Refusal::PackageDiffers {
            name,
            version,
            field: _,
            wanted: _,
            found: _,
        } => lines_of_package(alloc, name.as_bytes(), version.as_bytes(), refusal, tree),
        _ => Ok(Vec::new(alloc)),
    }
}

// The lines on the file of the package with this name and version, by the list of repositories that
// is read.
fn lines_of_package<T: Tree>(
    alloc: Global,
    name: &[u8],
    version: &[u8],
    refusal: &Refusal,
    tree: &mut T,
) -> Result<Vec<u8>, TreeFault>
    ensures lines { IfOk result (λ lines.
        ExplainsPackage name.now version.now refusal.now (T.history tree.old) lines.items) }
    // The tree is only read.
    ensures tree { OnlyReads TreeFault.Disk (T.history tree.old) (T.history tree.new)
        (T.counts tree.old) (T.counts tree.new) result }
{
    // A law that the proof needs; it computes nothing.
    consecutive_reads_compose::<Option<Vec<u8>>, Vec<u8>, TreeFault>();
    let file = repositories_name(alloc)?;
    let found = read_all(alloc, tree, &file)?;
    lines_by_text(alloc, name, version, refusal, text_of_found(&found), tree)
}

// The lines on the file of a package, by the text of the list of repositories; none if a line of
// this list is bad.
fn lines_by_text<T: Tree>(
    alloc: Global,
    name: &[u8],
    version: &[u8],
    refusal: &Refusal,
    text: &[u8],
    tree: &mut T,
) -> Result<Vec<u8>, TreeFault>
    ensures lines { IfOk result (λ lines. ExplainsByText name.now version.now refusal.now
        (repositories_of text.now) (T.history tree.old) lines.items) }
    // The tree is only read.
    ensures tree { OnlyReads TreeFault.Disk (T.history tree.old) (T.history tree.new)
        (T.counts tree.old) (T.counts tree.new) result }
{
    match Repos::read(alloc, text) {
        Ok(repositories) => {
            lines_of_repositories(alloc, name, version, refusal, &repositories, tree)
        }
        Err(ReposFault::Bad { line: _ }) => Ok(Vec::new(alloc)),
        Err(ReposFault::Memory) => Err(TreeFault::Memory),
    }
}

// The lines on the file of a package beside the index of each repository, one repository after
// another; before them the line that says that there is no repository, if there is none.
fn lines_of_repositories<T: Tree>(
    alloc: Global,
    name: &[u8],
    version: &[u8],
    refusal: &Refusal,
    repositories: &Repos,
    tree: &mut T,
) -> Result<Vec<u8>, TreeFault>
    ensures lines { IfOk result (λ lines. ExplainsRepositories name.now version.now refusal.now
        (T.history tree.old) repositories.now lines.items) }
    // The tree is only read.
    ensures tree { OnlyReads TreeFault.Disk (T.history tree.old) (T.history tree.new)
        (T.counts tree.old) (T.counts tree.new) result }
{
    let mut lines = Vec::from_slice(alloc, no_index_line(repositories))?;
    for i in 0..repositories.len() {
        let more = lines_beside(alloc, name, version, refusal, repositories.path(i), tree)?;
        lines.extend_from_slice(&more)?;
    }
    Ok(lines)
}

/// The line that says that there is no repository, if there is none.
pub fn no_index_line(repositories: &Repos) -> &'static [u8]
    ensures { result.now ≡ no_index_line repositories.now }
{
    if repositories.is_empty() {
        b"apk: etc/apk/repositories names no index; a line such as main/index.adb names one\n"
    } else {
        b""
    }
}

// The lines on the file of a package beside an index: where it is looked for, and which of its
// files the positions are that the refusal names.
fn lines_beside<T: Tree>(
    alloc: Global,
    name: &[u8],
    version: &[u8],
    refusal: &Refusal,
    index: &Name,
    tree: &mut T,
) -> Result<Vec<u8>, TreeFault>
    ensures lines { IfOk result (λ lines. ExplainsBeside name.now version.now refusal.now
        (T.history tree.old) index.now lines.items) }
    // The tree is only read.
    ensures tree { OnlyReads TreeFault.Disk (T.history tree.old) (T.history tree.new)
        (T.counts tree.old) (T.counts tree.new) result }
{
    let mut lines = Vec::new(alloc);
    push_package_file_line(alloc, &mut lines, name, version, index)?;
    let file = package_file_beside(alloc, index, name, version)?;
    let contents = lines_of_contents(alloc, &file, refusal, tree)?;
    lines.extend_from_slice(&contents)?;
    Ok(lines)
}

// Adds the line that says where the file of a package is looked for, beside an index.
fn push_package_file_line(
    alloc: Global,
    lines: &mut Vec<u8>,
    name: &[u8],
    version: &[u8],
    index: &Name,
) -> Result<(), AllocError>
    ensures { OnOk result (lines.new.items
        ≡ lines.old.items ++ package_file_line name.now version.now index.now) }
{
    let shown_index = printed(alloc, index.as_bytes())?;
    let shown_package = shown_package(alloc, name, version)?;
    let shown_path = shown_path(alloc, index, name, version)?;
    push_texts(
        lines,
        &[
            b"apk: the file of ",
            &shown_package,
            b" is looked for at ",
            &shown_path,
            b", beside ",
            &shown_index,
            b"\n",
        ],
    )
}

// The name and version of a package, as lines show them.
fn shown_package(alloc: Global, name: &[u8], version: &[u8]) -> Result<Vec<u8>, AllocError>
    ensures { IfOk result (λ text.
        text.items ≡ printed_text (name_dash_version name.now version.now)) }
{
    let mut package = Vec::from_slice(alloc, name)?;
    package.extend_from_slice(b"-")?;
    package.extend_from_slice(version)?;
    printed(alloc, &package)
}

// The path of a package's file beside an index, as lines show it, in full length.
fn shown_path(
    alloc: Global,
    index: &Name,
    name: &[u8],
    version: &[u8],
) -> Result<Vec<u8>, AllocError>
    ensures { IfOk result (λ text.
        text.items ≡ printed_bytes (package_path index.now name.now version.now)) }
{
    let path = package_path(alloc, index.as_bytes(), name, version)?;
    let mut text = Vec::new(alloc);
    push_printed(&mut text, &path)?;
    Ok(text)
}
