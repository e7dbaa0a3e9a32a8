//! Which files of a package the positions in `contents A.B where C.D was expected` are. The rules
//! are in `docs/commands.md`, "Hints".
ghost use Rattle.std.specs.Prelude.{◌≡◌, ◌⊎◌, ◌++◌, [], ℕ, List, Err, IfErr, IfOk, None, OnOk, Some};
ghost use Rattle.base_core.specs.Read.{OnlyReads};
ghost use Rattle.base_core.specs.Sink.{sink_before_and_after};
ghost use Rattle.base_core.specs.declared.tree.TreeFault.TheVariants.{Disk as DiskFault};
ghost use Rattle.hint_core.specs.Contents.{AreLinesOfRead, ExplainsContents, ExplainsFile, ExplainsMixedUp, file_line, mixed_up_positions, package_lines, payload_lines, position_line, refused_file};
ghost use Rattle.hint_core.specs.Told.{Tells};
ghost use Rattle.pkg_core.specs.Front.{front_payload};
ghost use Rattle.pkg_core.specs.declared.front.FrontFault.TheVariants.{Disk as FrontFailed};
ghost use Rattle.pkg_core.specs.adb_schema.Views.{package_value};

use crate::hint::cause_of;
use crate::package_paths::path_at;
use crate::printed::{printed, push_texts};
use crate::telling::{HintFault, is_explained};
use crate::warning::write_lines;
use base_core::{Cause, Name, Sink, Tree, TreeFault, Words};
use command_core::without_one_leading_dot_slash;
use itoa::Buffer;
use pkg_core::{
    Contents, Front, FrontFault, PACKAGE_WORD, PackageFault, PackageView,
    a_front_and_its_values_are_tested_as_a_whole_package, a_front_holds_the_payload_of_its_file,
    read_front,
};
use report_core::Refusal;
use std::alloc::{AllocError, Global};
use words_core::word_at;

/// Two files of a package whose contents are mixed up. Each is given by two positions, counted from
/// 1: that of its folder in the package, and its own in the folder. (0, 0) is no file.
#[derive(Clone, Copy)]
pub struct MixedUp {
    /// The file whose contents were expected.
    pub expected: (u32, u32),
    /// The file whose contents were found.
    pub found: (u32, u32),
}

/// Writes which files of a package the positions are that a refusal names. The front of the package
/// (its header and first block) is read once, and only then; nothing of the tree is changed.
///
/// # Errors
///
/// `Disk` or `Memory`, and nothing was written; or `Sink`, and a prefix of the lines was.
pub fn explain_contents<T: Tree, S: Sink>(
    alloc: Global,
    words: &Words,
    refusal: &Refusal,
    tree: &mut T,
    sink: &mut S,
) -> Result<(), HintFault>
    // The lines are those of the package as it is. If the call fails, nothing was written, or a
    // prefix of them.
    ensures told { (lines : List ℕ)
        × ((lines ≡ []) ⊎ ExplainsContents words.now refusal.now (T.history tree.old) lines)
        × OnOk result (ExplainsContents words.now refusal.now (T.history tree.old) lines)
        × Tells lines (sink_before_and_after S.bytes S.counts sink.old sink.new) result }
    // The tree is only read.
    ensures tree { OnlyReads HintFault.Disk (T.history tree.old) (T.history tree.new)
        (T.counts tree.old) (T.counts tree.new) result }
{
    let lines = contents_lines(alloc, words, refusal, tree)?;
    write_lines(&lines, sink)
}

// The lines that say which files the positions are that a refusal names, in the package that the
// refusal is about.
fn contents_lines<T: Tree>(
    alloc: Global,
    words: &Words,
    refusal: &Refusal,
    tree: &mut T,
) -> Result<Vec<u8>, TreeFault>
    ensures lines { IfOk result (λ lines.
        ExplainsContents words.now refusal.now (T.history tree.old) lines.items) }
    // The tree is only read.
    ensures tree { OnlyReads TreeFault.Disk (T.history tree.old) (T.history tree.new)
        (T.counts tree.old) (T.counts tree.new) result }
{
    let name = refused_file(alloc, words, refusal)?;
    lines_of_contents(alloc, &name, refusal, tree)
}

// The name of the package file that a refusal is about, if a word names it and hints explain the
// refusals of the command line. None if there is no such word, or it can name no file.
fn refused_file(alloc: Global, words: &Words, refusal: &Refusal) -> Result<Option<Name>, AllocError>
    ensures { IfOk result (λ name. name ≡ refused_file words.now refusal.now) }
{
    if !is_explained(alloc, words)? {
        return Ok(None);
    }
    let Refusal::FileBad { place, cause: _ } = refusal else {
        return Ok(None);
    };
    match word_at(words, *place) {
        Some(word) => Name::read(alloc, without_one_leading_dot_slash(word)),
        None => Ok(None),
    }
}

/// The lines on the positions that the cause of a refusal names, for the package file under a name.
/// There is none without a name, without positions, or if a test of the front or of the values
/// fails.
pub(crate) fn lines_of_contents<T: Tree>(
    alloc: Global,
    name: &Option<Name>,
    refusal: &Refusal,
    tree: &mut T,
) -> Result<Vec<u8>, TreeFault>
    ensures lines { IfOk result (λ lines.
        ExplainsMixedUp name.now (mixed_up_positions refusal.now)
        (T.history tree.old) lines.items) }
    // The tree is only read.
    ensures tree { OnlyReads TreeFault.Disk (T.history tree.old) (T.history tree.new)
        (T.counts tree.old) (T.counts tree.new) result }
{
    let Some(mixed) = mixed_up_positions(refusal) else {
        return Ok(Vec::new(alloc));
    };
    match name {
        Some(name) => file_lines(alloc, name, &mixed, tree),
        None => Ok(Vec::new(alloc)),
    }
}

// The positions of two files that the cause of a refusal names, if it names such.
fn mixed_up_positions(refusal: &Refusal) -> Option<MixedUp>
    ensures { result ≡ mixed_up_positions refusal.now }
{
    match cause_of(refusal) {
        Some(Cause::DataOrder { expected, found }) => Some(MixedUp { expected, found }),
        _ => None,
    }
}

// The lines on the two files that are mixed up in the package under a name, by the front (header
// and first block) that is read there.
fn file_lines<T: Tree>(
    alloc: Global,
    name: &Name,
    mixed: &MixedUp,
    tree: &mut T,
) -> Result<Vec<u8>, TreeFault>
    ensures lines { IfOk result (λ lines.
        ExplainsFile (Some name.now) mixed.now (T.history tree.old) lines.items) }
    // The tree is only read.
    ensures tree { OnlyReads TreeFault.Disk (T.history tree.old) (T.history tree.new)
        (T.counts tree.old) (T.counts tree.new) result }
{
    // Laws that the proof needs; they compute nothing.
    a_front_and_its_values_are_tested_as_a_whole_package();
    a_front_holds_the_payload_of_its_file();
    let read = read_front(alloc, tree, name, PACKAGE_WORD);
    lines_of_read(alloc, name.as_bytes(), mixed, &read)
}

// The lines for the front of a package (its header and first block) that was read; none if the
// front is absent or bad.
fn lines_of_read(
    alloc: Global,
    name: &[u8],
    mixed: &MixedUp,
    read: &Result<Option<Front>, FrontFault>,
) -> Result<Vec<u8>, TreeFault>
    ensures lines { IfOk result (λ lines. AreLinesOfRead name.now mixed.now read.now lines.items) }
    // The tree failed exactly if the reading did.
    ensures to { result ≡ Err DiskFault → read.now ≡ Err FrontFailed }
    ensures from { read.now ≡ Err FrontFailed → result ≡ Err DiskFault }
{
    match read {
        Ok(Some(front)) => Ok(payload_lines(alloc, name, mixed, front)?),
        Ok(None) => Ok(Vec::new(alloc)),
        Err(FrontFault::Bad(_)) => Ok(Vec::new(alloc)),
        Err(FrontFault::Disk) => Err(TreeFault::Disk),
        Err(FrontFault::Memory) => Err(TreeFault::Memory),
    }
}

// The lines of a package with this front, unless a test of its values fails.
fn payload_lines(
    alloc: Global,
    name: &[u8],
    mixed: &MixedUp,
    front: &Front,
) -> Result<Vec<u8>, AllocError>
    ensures { IfOk result (λ lines.
        lines.items ≡ payload_lines name.now mixed.now (front_payload front.now)) }
{
    match Contents::new(alloc, front) {
        Ok(contents) => package_lines(alloc, name, mixed, &contents.view()),
        Err(PackageFault::Bad(_)) => Ok(Vec::new(alloc)),
        Err(PackageFault::Memory) => Err(AllocError),
    }
}

// The lines on the two files that are mixed up in a package with this name: first the one whose
// contents were expected, then the one whose contents were found.
fn package_lines(
    alloc: Global,
    name: &[u8],
    mixed: &MixedUp,
    view: &PackageView<'_>,
) -> Result<Vec<u8>, AllocError>
    ensures { IfOk result (λ lines.
        lines.items ≡ package_lines name.now mixed.now (package_value view.now)) }
{
    let mut lines = Vec::new(alloc);
    push_position(alloc, &mut lines, name, view, mixed.expected)?;
    push_position(alloc, &mut lines, name, view, mixed.found)?;
    Ok(lines)
}

// Adds the line of the file with these positions in a package; nothing for (0, 0), which is no
// file.
fn push_position(
    alloc: Global,
    lines: &mut Vec<u8>,
    name: &[u8],
    view: &PackageView<'_>,
    position: (u32, u32),
) -> Result<(), AllocError>
    ensures { OnOk result (lines.new.items ≡ lines.old.items
        ++ position_line name.now (package_value view.now) position) }
{
    if position.0 == 0 && position.1 == 0 {
        return Ok(());
    }
    match path_at(alloc, view, position)? {
        Some(path) => push_path(alloc, lines, name, position, &path),
        None => push_no_file(alloc, lines, name, position),
    }
}

// Adds the line that says which path the file with these positions in a package has.
fn push_path(
    alloc: Global,
    lines: &mut Vec<u8>,
    name: &[u8],
    position: (u32, u32),
    path: &[u8],
) -> Result<(), AllocError>
    ensures { OnOk result (lines.new.items ≡ lines.old.items
        ++ file_line name.now position (Some path.now)) }
{
    let shown_name = printed(alloc, name)?;
    let shown_path = printed(alloc, path)?;
    // The decimal digits of the two positions.
    let mut folder = Buffer::new();
    let mut file = Buffer::new();
    push_texts(
        lines,
        &[
            b"apk: file ",
            folder.format(position.0).as_bytes(),
            b".",
            file.format(position.1).as_bytes(),
            b" of ",
            &shown_name,
            b" is ",
            &shown_path,
            b"\n",
        ],
    )
}

// Adds the line that says that a package has no file with these positions.
fn push_no_file(
    alloc: Global,
    lines: &mut Vec<u8>,
    name: &[u8],
    position: (u32, u32),
) -> Result<(), AllocError>
    ensures { OnOk result (lines.new.items ≡ lines.old.items
        ++ file_line name.now position None) }
{
    let shown = printed(alloc, name)?;
    // The decimal digits of the two positions.
    let mut folder = Buffer::new();
    let mut file = Buffer::new();
    push_texts(
        lines,
        &[
            b"apk: ",
            &shown,
            b" has no file ",
            folder.format(position.0).as_bytes(),
            b".",
            file.format(position.1).as_bytes(),
            b"\n",
        ],
    )
}
