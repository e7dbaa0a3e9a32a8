//! Writes warnings after a command that was carried out. The rules are in `docs/commands.md`,
//! "Warnings".
ghost use Rattle.std.specs.Prelude.{◌≡◌, ◌⊎◌, ◌++◌, [], ℕ, List, IfOk, IfErr, OnOk, Contains, Some, None};
ghost use Rattle.std.specs.Option.{option_copied, option_map};
ghost use Rattle.base_core.specs.Calls.{IfObservable};
ghost use Rattle.base_core.specs.Read.{OnlyReads, bytes_in};
ghost use Rattle.base_core.specs.Sink.{sink_before_and_after};
ghost use Rattle.dep_core.specs.Repositories.{Repository, repositories_of};
ghost use Rattle.words_core.specs.Grammar.{command_of};
ghost use Rattle.hint_core.specs.Told.{IsNotDiskFault, Tells};
ghost use Rattle.hint_core.specs.Warnings.{WarnsForApplet, WarnsIfGiven, WarnsOfFolder, WarnsOfTags, Warns, empty_folder_line, is_tag_of, has_repository_with_tag, folder_to_pack, unknown_tag_line, tag_of, warning_if_tag_unknown, tag_warnings, text_of_found, tag_warnings_if_read};

use crate::printed::{printed, push_texts};
use crate::telling::HintFault;
use base_core::{Name, Sink, Tree, TreeFault, Words, read_all, write_all};
use command_core::{Applet, Command, FILES, Operands, values_are_of_their_kind};
use dep_core::{Repos, ReposFault, read_dep};
use root_names::repositories_name;
use std::alloc::{AllocError, Global};
use words_core::read_words;

/// Writes the warnings of a command line that was carried out: of `mkpkg`, that no file is below
/// the folder of `-F`; of `add`, the tags of operands that no repository has. Nothing of the tree
/// is changed.
///
/// # Errors
///
/// `Disk` or `Memory`, and nothing was written; or `Sink`, and a prefix of the lines was.
pub fn warn<T: Tree, S: Sink>(
    alloc: Global,
    words: &Words,
    tree: &mut T,
    sink: &mut S,
) -> Result<(), HintFault>
    // The lines are those of the words and of the tree. If the call fails, nothing was written, or
    // a prefix of them.
    ensures told { (lines : List ℕ)
        × ((lines ≡ []) ⊎ Warns (command_of words.now) (T.history tree.old) lines)
        × OnOk result (Warns (command_of words.now) (T.history tree.old) lines)
        × Tells lines (sink_before_and_after S.bytes S.counts sink.old sink.new) result }
    // The tree is only read.
    ensures tree { OnlyReads HintFault.Disk (T.history tree.old) (T.history tree.new)
        (T.counts tree.old) (T.counts tree.new) result }
{
    let lines = warnings(alloc, words, tree)?;
    write_lines(&lines, sink)
}

/// Writes lines to a sink.
pub fn write_lines<S: Sink>(lines: &[u8], sink: &mut S) -> Result<(), HintFault>
    ensures told { Tells lines.now
        (sink_before_and_after S.bytes S.counts sink.old sink.new) result }
    // No tree failed.
    ensures failed { IfErr result IsNotDiskFault }
{
    Ok(write_all(sink, lines)?)
}

// The lines of the warnings of a command line; none if its words are no command.
fn warnings<T: Tree>(alloc: Global, words: &Words, tree: &mut T) -> Result<Vec<u8>, TreeFault>
    ensures lines { IfOk result (λ lines.
        Warns (command_of words.now) (T.history tree.old) lines.items) }
    // The tree is only read.
    ensures tree { OnlyReads TreeFault.Disk (T.history tree.old) (T.history tree.new)
        (T.counts tree.old) (T.counts tree.new) result }
{
    match read_words(alloc, words) {
        Ok(command) => warnings_of(alloc, &command, tree),
        Err(words_core::WordsFault::Usage { place: _ }) => Ok(Vec::new(alloc)),
        Err(words_core::WordsFault::Memory) => Err(TreeFault::Memory),
    }
}

// The lines of the warnings of a command. Only `mkpkg` and `add` have warnings.
fn warnings_of<T: Tree>(
    alloc: Global,
    command: &Command,
    tree: &mut T,
) -> Result<Vec<u8>, TreeFault>
    ensures lines { IfOk result (λ lines.
        WarnsForApplet command.now.applet command.now (T.history tree.old) lines.items) }
    // The tree is only read.
    ensures tree { OnlyReads TreeFault.Disk (T.history tree.old) (T.history tree.new)
        (T.counts tree.old) (T.counts tree.new) result }
{
    match command.applet() {
        Applet::Mkpkg => folder_warning(alloc, folder_to_pack(command), tree),
        Applet::Add => tag_warnings(alloc, command.operands(), tree),
        _ => Ok(Vec::new(alloc)),
    }
}

// ---- a folder without files

// The folder whose files a package gets, if `-F` gives one.
fn folder_to_pack(command: &Command) -> Option<&Name>
    ensures { option_map (λ name. name.now) result ≡ folder_to_pack command.entry.now.values }
{
    // A law that the proof needs; it computes nothing.
    values_are_of_their_kind();
    command.values().first_file(FILES)
}

// The warning that no file is below a folder; none without a folder.
fn folder_warning<T: Tree>(
    alloc: Global,
    folder: Option<&Name>,
    tree: &mut T,
) -> Result<Vec<u8>, TreeFault>
    ensures lines { IfOk result (λ lines.
        WarnsIfGiven (option_map (λ name. name.now) folder.entry)
        (T.history tree.old) lines.items) }
    // The tree is only read.
    ensures tree { OnlyReads TreeFault.Disk (T.history tree.old) (T.history tree.new)
        (T.counts tree.old) (T.counts tree.new) result }
{
    match folder {
        Some(folder) => warning_below(alloc, folder, tree),
        None => Ok(Vec::new(alloc)),
    }
}

// The line that says that no file is below a folder; nothing if a file is.
fn warning_below<T: Tree>(alloc: Global, folder: &Name, tree: &mut T) -> Result<Vec<u8>, TreeFault>
    ensures lines { IfOk result (λ lines.
        IfObservable (T.history tree.old) (WarnsOfFolder folder.now lines.items)) }
    // The tree is only read.
    ensures tree { OnlyReads TreeFault.Disk (T.history tree.old) (T.history tree.new)
        (T.counts tree.old) (T.counts tree.new) result }
{
    let names = tree.list(alloc, folder)?;
    if !names.is_empty() {
        return Ok(Vec::new(alloc));
    }
    let line = empty_folder_line(alloc, folder.as_bytes())?;
    Ok(line)
}

// The line that says that no file is below a folder.
fn empty_folder_line(alloc: Global, folder: &[u8]) -> Result<Vec<u8>, AllocError>
    ensures { IfOk result (λ line. line.items ≡ empty_folder_line folder.now) }
{
    let shown = printed(alloc, folder)?;
    let mut line = Vec::new(alloc);
    push_texts(&mut line, &[b"apk: no file is below ", &shown, b"\n"])?;
    Ok(line)
}

// ---- a tag that no repository has

// The warnings of the tags of operands, by the list of repositories that is read.
fn tag_warnings<T: Tree>(
    alloc: Global,
    operands: &Operands,
    tree: &mut T,
) -> Result<Vec<u8>, TreeFault>
    ensures lines { IfOk result (λ lines.
        IfObservable (T.history tree.old) (WarnsOfTags operands.now lines.items)) }
    // The tree is only read.
    ensures tree { OnlyReads TreeFault.Disk (T.history tree.old) (T.history tree.new)
        (T.counts tree.old) (T.counts tree.new) result }
{
    let name = repositories_name(alloc)?;
    let found = read_all(alloc, tree, &name)?;
    let lines = warnings_by_text(alloc, text_of_found(&found), operands)?;
    Ok(lines)
}

/// The text of a file that was read; empty if the file is absent.
pub(crate) fn text_of_found(found: &Option<Vec<u8>>) -> &[u8]
    ensures { result.now ≡ text_of_found (bytes_in found.now) }
{
    match found {
        Some(text) => text,
        None => b"",
    }
}

// The warnings of the tags of operands, by the text of the list of repositories; none if a line of
// this list is bad.
fn warnings_by_text(alloc: Global, text: &[u8], operands: &Operands) -> Result<Vec<u8>, AllocError>
    ensures { IfOk result (λ lines.
        lines.items ≡ tag_warnings_if_read (repositories_of text.now) operands.now) }
{
    match Repos::read(alloc, text) {
        Ok(repos) => warnings_of_all(alloc, &repos, operands),
        Err(ReposFault::Bad { line: _ }) => Ok(Vec::new(alloc)),
        Err(ReposFault::Memory) => Err(AllocError),
    }
}

// The warnings of the tags of operands, one operand after another.
fn warnings_of_all(alloc: Global, repos: &Repos, operands: &Operands) -> Result<Vec<u8>, AllocError>
    ensures { IfOk result (λ lines. lines.items ≡ tag_warnings repos.now operands.now) }
{
    let mut lines = Vec::new(alloc);
    for i in 0..operands.len() {
        push_warning(alloc, &mut lines, repos, operands.get(i).text.as_bytes())?;
    }
    Ok(lines)
}

// Adds the warning of an operand's tag, if it has one that no repository has.
fn push_warning(
    alloc: Global,
    lines: &mut Vec<u8>,
    repos: &Repos,
    operand: &[u8],
) -> Result<(), AllocError>
    ensures { OnOk result (lines.new.items
        ≡ lines.old.items ++ warning_if_tag_unknown repos.now (tag_of operand.now)) }
{
    let Some(tag) = tag_of(operand) else {
        return Ok(());
    };
    if has_repository_with_tag(repos, tag) {
        return Ok(());
    }
    let shown = printed(alloc, tag)?;
    push_texts(lines, &[b"apk: no repository has the tag @", &shown, b"\n"])
}

// The tag of a text, if the text is a dependency with a tag.
fn tag_of(text: &[u8]) -> Option<&[u8]>
    ensures { option_copied result ≡ tag_of text.entry.now }
{
    match read_dep(text) {
        Some(dep) => dep.tag,
        None => None,
    }
}

// Whether one of these repositories has a tag.
fn has_repository_with_tag(repos: &Repos, tag: &[u8]) -> bool
    ensures { result ≡ has_repository_with_tag repos.now tag.now }
{
    for i in 0..repos.len() {
        if is_tag_of(tag, repos.tag(i)) {
            return true;
        }
    }
    false
}

// Whether the tag `other`, if there is one, equals the tag `tag`.
fn is_tag_of(tag: &[u8], other: Option<&[u8]>) -> bool
    ensures { result ≡ is_tag_of tag.now (option_copied other.entry) }
{
    match other {
        Some(other) => other == tag,
        None => false,
    }
}
