//! The packed files of a package, and what their bytes are (apk-package(5)). The rules are in
//! `docs/commands.md`, "`mkpkg`", part "Files" (when a file is a symbolic link), and in
//! `docs/formats.md`, "The texts", field 406 (its target).
ghost use Rattle.std.specs.Prelude.{◌≡◌, ◌∷◌, true, false, IfOk, MatchOption};
ghost use Rattle.std.specs.Str.{is_utf8};
ghost use Rattle.package_files.specs.Package.{is_link_file, link_text, has_contents, kind_of_file, size_of_kind, hash_of_kind, target_of_kind};

use base_core::Text;
use sha2::{Digest, Sha256};
use std::alloc::{AllocError, Global};
use std::str;

/// The bytes with which a file begins that represents a symbolic link.
const LINK_MARK: &[u8] = b"!<symlink>";

/// The folders of a package with their files, and the blocks with the contents of these files.
#[derive(Drop)]
pub struct Packing<'a> {
    /// The folders, in byte order of their names.
    pub folders: Vec<Folder<'a>>,
    /// The blocks of contents of the files, one after the other.
    pub blocks: Vec<u8>,
}

/// A folder of a package, with the files in it.
#[derive(Drop)]
pub struct Folder<'a> {
    /// The name of the folder in the package; empty for the root.
    pub name: &'a [u8],
    /// The files directly in the folder, in byte order of their names.
    pub files: Vec<File<'a>>,
}

/// A file of a package, without its contents.
#[derive(Drop)]
pub struct File<'a> {
    /// The name of the file in its folder.
    pub name: &'a [u8],
    /// The kind of the file: a link or a regular file.
    pub kind: FileKind,
}

/// What the bytes of a file are in a package (apk-package(5)).
#[derive(Drop)]
pub enum FileKind {
    /// A symbolic link, with the value of its field `target`.
    Link { target: Text },
    /// A regular file, with its size in bytes and its SHA-256.
    Regular { size: u64, hash: [u8; 32] },
}

impl FileKind {
    /// The kind of a file with these bytes: a link if they are the mark of a link and a text that
    /// is not empty; otherwise a regular file.
    #[tactic(auto, unfolding(crate::specs::Package::kind_of_file))]
    pub(crate) fn of(alloc: Global, bytes: &[u8]) -> Result<FileKind, AllocError>
        ensures { IfOk result (λ kind. kind ≡ kind_of_file bytes.now) }
    {
        match link_text(bytes) {
            Some(text) => {
                let target = target(alloc, text)?;
                Ok(FileKind::Link { target })
            }
            None => Ok(FileKind::Regular {
                size: bytes.len() as u64,
                hash: Sha256::digest(bytes),
            }),
        }
    }

    /// The size of a regular file in bytes, and 0 for a link.
    pub fn size(&self) -> u64
        ensures { result ≡ size_of_kind self.now }
    {
        match self {
            FileKind::Link { .. } => 0,
            FileKind::Regular { size, .. } => *size,
        }
    }

    /// The SHA-256 of a regular file, and nothing for a link.
    pub fn hash(&self) -> &[u8]
        ensures { result.now ≡ hash_of_kind self.now }
    {
        match self {
            FileKind::Link { .. } => &[],
            FileKind::Regular { hash, .. } => hash,
        }
    }

    /// The target of a link, and nothing for a regular file.
    pub fn target(&self) -> &[u8]
        ensures { result.now ≡ target_of_kind self.now }
    {
        match self {
            FileKind::Link { target } => target.as_bytes(),
            FileKind::Regular { .. } => &[],
        }
    }

    /// Whether the file has contents after the package's values: it is a regular file that is not
    /// empty.
    pub(crate) fn has_contents(&self) -> bool
        ensures { result ≡ has_contents self.now }
    {
        self.size() > 0
    }
}

/// The target of a link: the kind 0xa000 of two bytes, little-endian, and the text.
fn target(alloc: Global, text: &[u8]) -> Result<Text, AllocError>
    ensures { IfOk result (λ target. target ≡ 0 ∷ 160 ∷ text.now) }
{
    let mut target = Vec::new(alloc);
    target.extend_from_slice(&[0x00, 0xa0])?;
    target.extend_from_slice(text)?;
    Ok(Text::from_vec(target))
}

/// The text after the mark of a link. None is returned exactly if the bytes are no link.
#[tactic(auto, unfolding(crate::specs::Package::is_link_file))]
fn link_text(bytes: &[u8]) -> Option<&[u8]>
    // None exactly if the bytes are not those of a link; otherwise the text after the mark.
    ensures { MatchOption result (is_link_file bytes.now ≡ false) (λ text.
        (is_link_file bytes.now ≡ true) × (text.now ≡ link_text bytes.now)) }
{
    let text = bytes.strip_prefix(LINK_MARK)?;
    if text.is_empty() || !is_text(text) {
        return None;
    }
    Some(text)
}

/// Whether bytes are UTF-8.
fn is_text(bytes: &[u8]) -> bool
    ensures { result ≡ is_utf8 bytes.now }
{
    match str::from_utf8(bytes) {
        Ok(_) => true,
        Err(_) => false,
    }
}
