//! Repositories: how the lines of `etc/apk/repositories` are read. Each line names the path of an
//! index. The rules are in `docs/formats.md`, "Repositories".

ghost use Rattle.std.specs.Prelude.{◌≡◌, ◌<◌, ◌==◌, ◌++◌, length, slice_get, Some, None, if◌then◌else◌, IfOk, IfErr, option_copied};
ghost use Rattle.std.specs.Option.{option_map};
ghost use Rattle.dep_core.specs.Repositories.{repository_at_path, begins_with_blank, is_trimmed_line_empty_or_comment, repositories_of, repositories_on_line, repository_of, repository_after_at_sign, without_outer_blanks, without_trailing_blanks};
ghost use Rattle.dep_core.specs.Faults.{IsReposFault};
ghost use Rattle.dep_core.specs.LeadingSlash.{without_leading_slash};

use crate::dep::is_tag;
use crate::text::{blank_len, is_blank, tag_len};
use base_core::{Name, Text};
use std::alloc::{AllocError, Global};
use std::marker::Model;

/// Why the text of a list of repositories was not read.
#[derive(Clone, Copy, Debug, PartialEq, Eq)]
pub enum ReposFault {
    /// `line` is the first line, counted from 1, that is not skipped and names no repository.
    Bad { line: u64 },
    /// Out of memory.
    Memory,
}

impl From<AllocError> for ReposFault {
    ghost use Rattle.std.specs.Prelude.{◌≡◌};
    ghost use Rattle.dep_core.specs.declared.repos.ReposFault.TheVariants.{Memory};

    ghost from_gives = { λ _ fault. fault ≡ Memory };

    /// Running out of memory is the fault `Memory`.
    fn from(_: AllocError) -> ReposFault {
        ReposFault::Memory
    }
}

/// A repository: the path of the file of its index, and its tag.
#[derive(Drop)]
struct Repo {
    /// The tag by which world may ask for packages of this repository, if it has a tag.
    tag: Option<Text>,
    /// The path of the file of the index, below the root.
    path: Name,
}

impl Model for Repo {
    ghost use Rattle.dep_core.specs.Repositories.{Repository, repository};

    ghost Value = { Repository };

    // In contracts a repository is its tag and its path.
    ghost view = { λ repo. repository repo.tag repo.path };
}

/// The repositories of a text, in the order of its lines.
#[derive(Drop)]
pub struct Repos {
    /// A repository for each line that is not skipped.
    repos: Vec<Repo>,
}

impl Model for Repos {
    ghost use Rattle.std.specs.Prelude.{List};
    ghost use Rattle.dep_core.specs.Repositories.{Repository};

    ghost Value = { List Repository };

    // In contracts this is the list of the repositories.
    ghost view = { λ repos. repos.repos.items };
}

impl Repos {
    /// The repositories that a text names. A line has a path, or `@`, a tag, spaces or tabs and a
    /// path. Lines that are empty or begin with `#` are skipped, as are spaces and tabs at both
    /// ends of a line. One leading `/` of a path is dropped, and the rest must be a name.
    pub fn read(alloc: Global, bytes: &[u8]) -> Result<Repos, ReposFault>
        // On Ok, the repositories are those of the text.
        ensures ok { IfOk result (λ repos. repositories_of bytes.now ≡ Ok repos) }
        // An error is that of the definition, or out of memory.
        ensures bad { IfErr result (λ fault. IsReposFault fault (repositories_of bytes.now)) }
    {
        let mut repos = Vec::new(alloc);
        let mut line = 0;
        for text in bytes.split(|byte| *byte == b'\n') {
            line += 1;
            if !add_line(alloc, &mut repos, text)? {
                return Err(ReposFault::Bad { line });
            }
        }
        Ok(Repos { repos })
    }

    /// How many repositories there are.
    pub fn len(&self) -> usize
        ensures { result ≡ length self.now }
    {
        self.repos.len()
    }

    /// Whether there is no repository.
    pub fn is_empty(&self) -> bool
        ensures { result ≡ (length self.now == 0) }
    {
        self.repos.is_empty()
    }

    /// The path of the file of the index of the repository at `i`, which counts from 0.
    pub fn path(&self, i: usize) -> &Name
        // There is a repository at `i`.
        requires { i < length self.now }
        // The result is the path of the repository with this index.
        ensures { option_map (λ repo. repo.path) (slice_get self.now i) ≡ Some result.now }
    {
        &self.repos[i].path
    }

    /// The tag, if any, of the repository at `i`, which counts from 0.
    pub fn tag(&self, i: usize) -> Option<&[u8]>
        // There is a repository at `i`.
        requires { i < length self.now }
        // The result is the tag of the repository with this index.
        ensures { option_map (λ repo. repo.tag) (slice_get self.now i)
            ≡ Some (option_copied result) }
    {
        self.repos[i].tag.as_ref().map(|tag| tag.as_bytes())
    }
}

/// Adds the repository that a line names, if it names one. Returns whether the line is good: it is
/// skipped, or names a repository.
fn add_line(alloc: Global, repos: &mut Vec<Repo>, line: &[u8]) -> Result<bool, AllocError>
    // On `Ok(true)`, the repositories of the line are appended. On `Ok(false)`, the definition
    // gives None, which means that the line is bad.
    ensures { IfOk result (λ good.
        option_map (λ found. repos.old.items ++ found) (repositories_on_line line.now)
        ≡ (if good then Some repos.new.items else None)) }
{
    let line = without_outer_blanks(line);
    if is_trimmed_line_empty_or_comment(line) {
        return Ok(true);
    }
    let Some(repo) = read_repo(alloc, line)? else {
        return Ok(false);
    };
    repos.push(repo)?;
    Ok(true)
}

/// The text without spaces and tabs at both ends.
fn without_outer_blanks(text: &[u8]) -> &[u8]
    ensures { result.now ≡ without_outer_blanks text.now }
{
    without_trailing_blanks(&text[blank_len(text)..])
}

/// The text without the blanks at its end.
fn without_trailing_blanks(text: &[u8]) -> &[u8]
    ensures { result.now ≡ without_trailing_blanks text.now }
{
    let mut end = text.len();
    while end > 0 && is_blank(text[end - 1]) {
        end -= 1;
    }
    &text[..end]
}

/// Whether a line is skipped, given the line without blanks at both ends: it is empty, or begins
/// with `#`.
fn is_trimmed_line_empty_or_comment(text: &[u8]) -> bool
    ensures { result ≡ is_trimmed_line_empty_or_comment text.now }
{
    match text.first() {
        Some(byte) => *byte == b'#',
        None => true,
    }
}

/// The repository of a line that is not skipped, given without blanks at both ends; None if the
/// line is bad.
#[tactic(auto, unfolding(crate::specs::Repositories::repository_of))]
fn read_repo(alloc: Global, text: &[u8]) -> Result<Option<Repo>, AllocError>
    ensures { IfOk result (λ found. found ≡ repository_of text.now) }
{
    match text.split_first() {
        Some((b'@', rest)) => read_tagged(alloc, rest),
        Some(_) => repository_at_path(alloc, None, text),
        None => Ok(None),
    }
}

/// The repository of a line, given the text after the `@` of its tag; None if the line is bad.
#[tactic(auto, unfolding(crate::specs::Repositories::repository_after_at_sign))]
fn read_tagged(alloc: Global, text: &[u8]) -> Result<Option<Repo>, AllocError>
    ensures { IfOk result (λ found. found ≡ repository_after_at_sign text.now) }
{
    let (tag, rest) = text.split_at(tag_len(text));
    if !is_tag(tag) || !begins_with_blank(rest) {
        return Ok(None);
    }
    repository_at_path(alloc, Some(tag), &rest[blank_len(rest)..])
}

/// Whether the first byte is a space or a tab.
fn begins_with_blank(text: &[u8]) -> bool
    ensures { result ≡ begins_with_blank text.now }
{
    match text.first() {
        Some(byte) => is_blank(*byte),
        None => false,
    }
}

/// The repository with this tag and this path, without one leading `/`; None if the path is no
/// name.
fn repository_at_path(
    alloc: Global,
    tag: Option<&[u8]>,
    path: &[u8],
) -> Result<Option<Repo>, AllocError>
    ensures { IfOk result (λ found. found ≡ repository_at_path (option_copied tag.entry) path.now) }
{
    let Some(path) = Name::read(alloc, without_leading_slash(path))? else {
        return Ok(None);
    };
    let tag = match tag {
        Some(tag) => Some(Text::of(alloc, tag)?),
        None => None,
    };
    Ok(Some(Repo { tag, path }))
}

/// A text without one leading `/`, which is allowed before a path below the root.
pub fn without_leading_slash(path: &[u8]) -> &[u8]
    ensures { result.now ≡ without_leading_slash path.now }
{
    match path.split_first() {
        Some((b'/', rest)) => rest,
        _ => path,
    }
}
