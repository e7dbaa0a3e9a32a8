//! Writes what the numbers of a refusal stand for, after its error line. The rules are in
//! `docs/commands.md`, "Hints".
ghost use Rattle.std.specs.Prelude.{◌≡◌, ℕ, List, Option, IfOk, IfErr};
ghost use Rattle.std.specs.Option.{option_copied};
ghost use Rattle.base_core.specs.Read.{OnlyReads, bytes_in};
ghost use Rattle.base_core.specs.Sink.{sink_before_and_after};
ghost use Rattle.words_core.specs.Grammar.{command_of};
ghost use Rattle.hint_core.specs.Hints.{asks_for_owner, hint_file_name, hints_by_words_and_subject_file, is_explained, is_fix, subject_file, subject_of};
ghost use Rattle.hint_core.specs.Lines.{hint_lines};
ghost use Rattle.hint_core.specs.Told.{IsFoundForSubject, IsNotDiskFault, Tells, hint_lines_after_refusal};

use crate::find::hints;
use crate::hint::{HintFile, Subject, subject_of};
use crate::lines::hint_lines;
use base_core::{Name, Sink, SinkFault, Tree, TreeFault, Words, read_all, write_all};
use command_core::Applet;
use report_core::Refusal;
use root_names::{database_name, repositories_name, text_database_name, world_name};
use std::alloc::{AllocError, Global};
use words_core::read_words;

/// Why the lines of a refusal's hints are not written, or not whole.
#[derive(Clone, Copy)]
pub enum HintFault {
    /// The tree failed.
    Disk,
    /// Out of memory.
    Memory,
    /// The sink failed.
    Sink,
}

impl From<TreeFault> for HintFault {
    ghost use Rattle.std.specs.Prelude.{◌≡◌};
    ghost use Rattle.hint_core.specs.Told.{as_hint_fault};

    ghost from_gives = { λ fault hint_fault. hint_fault ≡ as_hint_fault fault };

    // A fault of a read as a fault of the hints.
    fn from(fault: TreeFault) -> HintFault {
        match fault {
            TreeFault::Disk => HintFault::Disk,
            TreeFault::Memory => HintFault::Memory,
        }
    }
}

impl From<AllocError> for HintFault {
    ghost use Rattle.std.specs.Prelude.{◌≡◌};
    ghost use Rattle.hint_core.specs.declared.telling.HintFault.TheVariants.{Memory};

    ghost from_gives = { λ _ fault. fault ≡ Memory };

    // Out of memory as a fault of the hints.
    fn from(_: AllocError) -> HintFault {
        HintFault::Memory
    }
}

impl From<SinkFault> for HintFault {
    ghost use Rattle.std.specs.Prelude.{◌≡◌};
    ghost use Rattle.hint_core.specs.declared.telling.HintFault.TheVariants.{Sink as SinkFailed};

    ghost from_gives = { λ _ fault. fault ≡ SinkFailed };

    // A failed sink as a fault of the hints.
    fn from(_: SinkFault) -> HintFault {
        HintFault::Sink
    }
}

/// Writes the lines of the hints of a refusal with which a command line was answered. The file that
/// the refusal is about is read once, if there is one; nothing of the tree is changed. No line is
/// written for `demo`, whose refusals are those of other command lines.
///
/// # Errors
///
/// `Disk` or `Memory`, and nothing was written; or `Sink`, and a prefix of the lines was.
pub fn explain<T: Tree, S: Sink>(
    alloc: Global,
    words: &Words,
    refusal: &Refusal,
    tree: &mut T,
    sink: &mut S,
) -> Result<(), HintFault>
    // The lines are those of the words, the refusal, and the file that it is about (`found`), as
    // this file is now.
    ensures told { (found : Option (List ℕ))
        × IsFoundForSubject (T.history tree.old) (subject_of refusal.now) found
        × Tells (hint_lines_after_refusal words.now refusal.now found)
        (sink_before_and_after S.bytes S.counts sink.old sink.new) result }
    // The tree is only read.
    ensures tree { OnlyReads HintFault.Disk (T.history tree.old) (T.history tree.new)
        (T.counts tree.old) (T.counts tree.new) result }
{
    if !is_explained(alloc, words)? {
        return Ok(());
    }
    let found = read_subject(alloc, subject_of(refusal), tree)?;
    tell(alloc, words, refusal, bytes_of(&found), sink)
}

/// Whether hints explain the refusals of a command line: it is a command other than `demo`, whose
/// refusals are about other command lines.
pub(crate) fn is_explained(alloc: Global, words: &Words) -> Result<bool, AllocError>
    ensures { IfOk result (λ own. own ≡ is_explained (command_of words.now)) }
{
    match read_words(alloc, words) {
        Ok(command) => Ok(!matches!(command.applet(), Applet::Demo)),
        Err(words_core::WordsFault::Usage { place: _ }) => Ok(false),
        Err(words_core::WordsFault::Memory) => Err(AllocError),
    }
}

/// Whether a command line is a command that asks which package owns a path.
pub(crate) fn asks_for_owner(alloc: Global, words: &Words) -> Result<bool, AllocError>
    ensures { IfOk result (λ asked. asked ≡ asks_for_owner (command_of words.now)) }
{
    match read_words(alloc, words) {
        Ok(command) => Ok(command.flags().who_owns),
        Err(words_core::WordsFault::Usage { place: _ }) => Ok(false),
        Err(words_core::WordsFault::Memory) => Err(AllocError),
    }
}

/// Whether a command line is a command that installs packages again.
pub(crate) fn is_fix(alloc: Global, words: &Words) -> Result<bool, AllocError>
    ensures { IfOk result (λ fixes. fixes ≡ is_fix (command_of words.now)) }
{
    match read_words(alloc, words) {
        Ok(command) => Ok(matches!(command.applet(), Applet::Fix)),
        Err(words_core::WordsFault::Usage { place: _ }) => Ok(false),
        Err(words_core::WordsFault::Memory) => Err(AllocError),
    }
}

// The bytes of the file that a refusal is about. None if it is about none, or the file is absent.
fn read_subject<T: Tree>(
    alloc: Global,
    subject: Subject,
    tree: &mut T,
) -> Result<Option<Vec<u8>>, TreeFault>
    ensures found { IfOk result (λ found.
        IsFoundForSubject (T.history tree.old) subject (bytes_in found)) }
    // The tree is only read.
    ensures tree { OnlyReads TreeFault.Disk (T.history tree.old) (T.history tree.new)
        (T.counts tree.old) (T.counts tree.new) result }
{
    let Some(name) = subject_file(alloc, subject)? else {
        return Ok(None);
    };
    read_all(alloc, tree, &name)
}

// The name of the file that a refusal with this subject is about, if it is about one.
fn subject_file(alloc: Global, subject: Subject) -> Result<Option<Name>, AllocError>
    ensures { IfOk result (λ name. name ≡ subject_file subject) }
{
    match subject {
        Subject::Repository { number: _ } => Ok(Some(repositories_name(alloc)?)),
        Subject::Line { file, line: _ } => Ok(Some(hint_file_name(alloc, file)?)),
        Subject::Database | Subject::AbsentDatabase => Ok(Some(database_name(alloc)?)),
        _ => Ok(None),
    }
}

// The name of a file of which refusals report lines by their numbers.
fn hint_file_name(alloc: Global, file: HintFile) -> Result<Name, AllocError>
    ensures { IfOk result (λ name. name ≡ hint_file_name file) }
{
    match file {
        HintFile::World => world_name(alloc),
        HintFile::Repositories => repositories_name(alloc),
        HintFile::TextDatabase => text_database_name(alloc),
    }
}

// The bytes of a file, if one was found.
fn bytes_of(found: &Option<Vec<u8>>) -> Option<&[u8]>
    ensures { option_copied result ≡ bytes_in found.now }
{
    match found {
        Some(bytes) => Some(bytes),
        None => None,
    }
}

// Writes the lines of the hints of a refusal. `found` has the bytes of the file that it is about,
// if there are any.
fn tell<S: Sink>(
    alloc: Global,
    words: &Words,
    refusal: &Refusal,
    found: Option<&[u8]>,
    sink: &mut S,
) -> Result<(), HintFault>
    ensures told { Tells (hint_lines (hints_by_words_and_subject_file words.now refusal.now
        (option_copied found.entry)))
        (sink_before_and_after S.bytes S.counts sink.old sink.new) result }
    // No tree failed.
    ensures failed { IfErr result IsNotDiskFault }
{
    let hints = hints(alloc, words, refusal, found)?;
    let lines = hint_lines(alloc, &hints)?;
    Ok(write_all(sink, &lines)?)
}
