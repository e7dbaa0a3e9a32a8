//! The repositories of a root, and their indexes: all index files are read before the first of them
//! is tested. The rules are in `docs/commands.md`, "`add` and `del`" (parts "What is read" and
//! "What is refused"), and in `docs/formats.md`, "Repositories".

ghost use Rattle.db_core.specs.adb_schema.Texts.{text_or_number_fault};
ghost use Rattle.db_core.specs.adb_schema.Soundness.{root_value_of_payload};
ghost use Rattle.db_core.specs.adb_schema.Views.{index_value};
ghost use Rattle.adb_view.specs.Values.{is_sound};
ghost use Rattle.adb_view.specs.declared.tables.Kind.TheVariants as Kinds;
ghost use Rattle.adb_view.specs.declared.tables.Which.TheVariants as Tables;
ghost use Rattle.adb_view.specs.Head.{payload_head_fault, root_word_of_payload};
ghost use Rattle.base_core.specs.Read.{OnlyReads, bytes_in};
ghost use Rattle.change_inputs.specs.Answers.{Agrees, AgreesUnlessDiskOrMemory, AreFilesFoundInTree, IsFileFoundInTree};
ghost use Rattle.change_inputs.specs.IndexFiles.{are_indexes, bytes_of_each, index_of_file, is_index};
ghost use Rattle.change_inputs.specs.Indexes.{file_or_index_missing, index_files_from, index_in_file, indexes_in_files};
ghost use Rattle.std.specs.Prelude.{◌≡◌, ◌<◌, ◌++◌, ◌∷◌, [], true, ℕ, List, Option, Some, IfOk, OnOk, is_none, length, slice_get};
ghost use Rattle.change_inputs.specs.Repositories.{repositories_if_untrusted_allowed, root_repositories};
ghost use Rattle.change_inputs.specs.World.{found_text_or_empty};

use crate::root::{Refused, read_file, test_file};
use crate::world::found_text_or_empty;
use adb_view::{Adb, values_of_few_visits_have_no_fault};
use base_core::{Name, Tree};
use db_core::{IndexView, ReadFault, Which, payload_in};
use dep_core::{Repos, ReposFault};
use report_core::Refusal;
use std::alloc::{AllocError, Global};

/// The bytes of index files, each of which passes all tests.
#[derive(Drop)]
pub(crate) struct IndexFiles {
    /// The bytes of each file, in the order of the repositories.
    pub(crate) files: Vec<Vec<u8>>,
    // Each file passes each test of an index.
    ghost sound: { are_indexes (bytes_of_each files.items) ≡ true },
}

impl IndexFiles {
    ghost use Rattle.change_inputs.specs.Seen.{indexes_seen};

    /// Tests all index files, in the order of the repositories, which count from 1.
    ///
    /// # Errors
    ///
    /// `IndexBad` of the first file that fails a test, or `Memory`.
    pub(crate) fn test(alloc: Global, files: Vec<Vec<u8>>) -> Result<IndexFiles, Refused>
        // The indexes are those of the definition, or the first bad file is refused; or out of
        // memory.
        ensures answer { Agrees indexes_seen result
            (indexes_in_files 1 (bytes_of_each files.items)) }
        // The bytes of the files are kept as they are.
        ensures kept { IfOk result (λ indexes. indexes.files.items ≡ files.items) }
    {
        for i in 0..files.len() {
            test_index_file(alloc, i as u64 + 1, &files[i])?;
        }
        Ok(IndexFiles { files })
    }

    /// How many index files there are: one for each repository.
    pub(crate) fn len(&self) -> usize
        ensures { result ≡ length (indexes_seen self.now) }
    {
        self.files.len()
    }

    /// Opens the index of repository number i + 1, which passed its tests.
    pub(crate) fn open(&self, i: usize) -> IndexView<'_>
        // `i` is below the number of index files.
        requires { i < length (indexes_seen self.now) }
        ensures { slice_get (indexes_seen self.now) i ≡ Some (index_value result) }
    {
        // A law that the proof needs; it computes nothing.
        values_of_few_visits_have_no_fault();
        open_payload(payload_in(&self.files[i]))
    }
}

// The index in a payload whose head, shape and texts were tested.
fn open_payload(payload: &[u8]) -> IndexView<'_>
    // The head of the payload passes its test.
    requires head { is_none (payload_head_fault payload.now) ≡ true }
    // Each value of the payload has the shape that the table of an index demands.
    requires sound { is_sound payload.now (Kinds.Obj Tables.Index)
        (root_word_of_payload payload.now) ≡ true }
    // Each text and number of the index passes the test of its field.
    requires texts { is_none (text_or_number_fault Tables.Index
        (root_value_of_payload Tables.Index payload.now))
        ≡ true }
    ensures { index_value result ≡ root_value_of_payload Tables.Index payload.now }
{
    // The head passes its test, so the payload can be opened.
    let Ok(adb) = Adb::new(payload) else {
        unreachable!()
    };
    IndexView::of(adb, adb.root())
}

/// Reads the file of each repository's index, up to the first absent file, which is refused.
/// Returns the bytes of the files, in the order of the repositories.
pub(crate) fn read_index_files<T: Tree>(
    alloc: Global,
    repositories: &Repos,
    tree: &mut T,
) -> Result<Vec<Vec<u8>>, Refused>
    // `found` is the file of each repository, or None; on an observable tree it is that of the
    // tree. All files are returned, or the first absent one is refused.
    ensures found { (found : List (Option (List ℕ)))
        × AreFilesFoundInTree (T.history tree.old) repositories.now found
        × AgreesUnlessDiskOrMemory (λ files. bytes_of_each files.items) result
        (index_files_from 1 found) }
    // There is one file for each repository.
    ensures count { IfOk result (λ files. length files.items ≡ length repositories.now) }
    // The tree is only read, and `Disk` has a counted fault of the tree as its cause.
    ensures tree { OnlyReads Refused.Disk (T.history tree.old) (T.history tree.new)
        (T.counts tree.old) (T.counts tree.new) result }
{
    let mut files = Vec::new(alloc);
    for i in 0..repositories.len() {
        let file = read_index_file(alloc, i as u64 + 1, repositories.path(i), tree)?;
        push_file(&mut files, file)?;
    }
    Ok(files)
}

// Appends the bytes of an index file to the files of the earlier repositories.
fn push_file(files: &mut Vec<Vec<u8>>, file: Vec<u8>) -> Result<(), AllocError>
    ensures { OnOk result (bytes_of_each files.new.items
        ≡ bytes_of_each files.old.items ++ file.items ∷ []) }
{
    files.push(file)?;
    Ok(())
}

// Reads the index file, under `path`, of the repository with this number, counted from 1.
fn read_index_file<T: Tree>(
    alloc: Global,
    number: u64,
    path: &Name,
    tree: &mut T,
) -> Result<Vec<u8>, Refused>
    // The result is that of the file which is found under the path.
    ensures found { (found : Option (List ℕ))
        × IsFileFoundInTree (T.history tree.old) path.now found
        × AgreesUnlessDiskOrMemory (λ file. file.items) result
        (file_or_index_missing number found) }
    // The tree is only read, and `Disk` has a counted fault of the tree as its cause.
    ensures tree { OnlyReads Refused.Disk (T.history tree.old) (T.history tree.new)
        (T.counts tree.old) (T.counts tree.new) result }
{
    match read_file(alloc, tree, path)? {
        Some(file) => Ok(file),
        None => Err(Refused::Refusal(Refusal::IndexMissing { repository: number })),
    }
}

// Tests the index file of the repository with this number, counted from 1.
fn test_index_file(alloc: Global, number: u64, file: &[u8]) -> Result<(), Refused>
    // Ok only if the file passes each test of an index. Otherwise its first fault is refused, or
    // memory ran out.
    ensures answer { Agrees (λ _. index_of_file file.now) result (index_in_file number file.now) }
    // Ok only if the file passes each test of an index.
    ensures passed { OnOk result (is_index file.now ≡ true) }
{
    match test_file(alloc, file, Which::Index) {
        Ok(()) => Ok(()),
        Err(ReadFault::Bad(cause)) => Err(Refused::Refusal(Refusal::IndexBad {
            repository: number,
            cause,
        })),
        Err(ReadFault::Memory) => Err(Refused::Memory),
    }
}

/// The repositories of a root, given the file `etc/apk/repositories` that was found, or None. Their
/// indexes may be read only if `--allow-untrusted` is given (`is_allowed`), since signatures are
/// not checked.
///
/// # Errors
///
/// `RepositoriesBad` with the first bad line; `Untrusted` if there is a repository and no
/// permission. Or `Memory`.
pub(crate) fn repositories_of(
    alloc: Global,
    is_allowed: bool,
    found: Option<Vec<u8>>,
) -> Result<Repos, Refused>
    // The result is that of the definition: the repositories, or the refusal; or out of memory.
    ensures { Agrees (λ repositories. repositories) result
        (root_repositories is_allowed (found_text_or_empty (bytes_in found))) }
{
    let text = found_text_or_empty(alloc, found);
    match Repos::read(alloc, &text) {
        Ok(repositories) => repositories_if_untrusted_allowed(is_allowed, repositories),
        Err(ReposFault::Bad { line }) => Err(Refused::Refusal(Refusal::RepositoriesBad { line })),
        Err(ReposFault::Memory) => Err(Refused::Memory),
    }
}

// The repositories, if there are none or `is_allowed` is true; otherwise the refusal `Untrusted`.
fn repositories_if_untrusted_allowed(
    is_allowed: bool,
    repositories: Repos,
) -> Result<Repos, Refused>
    ensures { Agrees (λ repositories. repositories) result
        (repositories_if_untrusted_allowed is_allowed repositories) }
{
    if !is_allowed && !repositories.is_empty() {
        return Err(Refused::Refusal(Refusal::Untrusted));
    }
    Ok(repositories)
}
