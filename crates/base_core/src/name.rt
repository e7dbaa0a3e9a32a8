//! Names of files, and lists of them. What a name is, is in `docs/commands.md`, "Words" ("A file
//! is named by a path below the root").
ghost use Rattle.std.specs.Prelude.{◌≡◌, ◌↔◌, ◌<◌, ◌==◌, ◌++◌, ◌∷◌, [], length, slice_get, Some, IfOk, IfSome, OnOk, OnErr, is_some, IsTrue, All};
ghost use Rattle.std.specs.List.{list_all};
ghost use Rattle.std.specs.Str.{is_utf8};
ghost use Rattle.base_core.specs.Files.{IsFolderOf};
ghost use Rattle.base_core.specs.Name.{IsName, is_name, is_path_part, path_parts_of};

use std::alloc::{AllocError, Global};
use std::marker::Model;
use std::str;

/// A path as its bytes: UTF-8, 1 to 1,024 bytes, parts separated by `/`, no part empty, `.` or
/// `..`, no zero byte. The path is relative to the tree's root.
#[derive(Drop)]
pub struct Name {
    /// The bytes of the name, UTF-8 text.
    bytes: Vec<u8>,
}

impl Model for Name {
    ghost use Rattle.std.specs.Prelude.{ℕ, List};
    ghost use Rattle.base_core.specs.Name.{IsName};

    // Contracts see a name as the list of its bytes.
    ghost Value = { List ℕ };

    ghost view = { λ name. name.bytes.items };

    // The bytes are a valid name.
    ghost invariant = { λ name. IsName name.bytes.items };
}

impl Name {
    /// The bytes as a name, or None exactly if they are not a name.
    pub fn read(alloc: Global, bytes: &[u8]) -> Result<Option<Name>, AllocError>
        // On Ok, a name is returned exactly if the bytes are valid as a name.
        ensures when { IfOk result (λ found. is_some found ≡ is_name bytes.now) }
        // A returned name has these bytes.
        ensures value { IfOk result (λ found. IfSome found (λ name. name ≡ bytes.now)) }
    {
        if !is_name(bytes) {
            return Ok(None);
        }
        let bytes = Vec::from_slice(alloc, bytes)?;
        Ok(Some(Name { bytes }))
    }

    /// The bytes as a name; the caller has to prove that they are a valid name.
    pub fn of(alloc: Global, bytes: &[u8]) -> Result<Name, AllocError>
        // The bytes are a valid name.
        requires { IsName bytes.now }
        ensures { IfOk result (λ name. name ≡ bytes.now) }
    {
        let bytes = Vec::from_slice(alloc, bytes)?;
        Ok(Name { bytes })
    }

    /// The bytes of the name.
    pub fn as_bytes(&self) -> &[u8]
        // The result has the bytes of the name.
        ensures value { result.now ≡ self.now }
        // These bytes are a valid name.
        ensures name { IsName self.now }
    {
        &self.bytes
    }

    /// Another name of the same bytes.
    pub fn copy(&self, alloc: Global) -> Result<Name, AllocError>
        ensures { IfOk result (λ name. name ≡ self.now) }
    {
        let bytes = Vec::from_slice(alloc, &self.bytes)?;
        Ok(Name { bytes })
    }
}

/// Whether the bytes are a name: 1 to 1,024 bytes of UTF-8, none of them zero, and each part may be
/// in a name.
#[tactic(auto, unfolding(crate::specs::Name::is_name))]
pub fn is_name(bytes: &[u8]) -> bool
    ensures { result ≡ is_name bytes.now }
{
    if bytes.is_empty() || bytes.len() > 1024 {
        return false;
    }
    if bytes.contains(&0) || !is_text(bytes) {
        return false;
    }
    has_parts(bytes)
}

/// Whether each part between slashes may be in a name.
fn has_parts(bytes: &[u8]) -> bool
    ensures { result ≡ list_all is_path_part (path_parts_of bytes.now) }
{
    bytes.split(|b| *b == b'/').all(|part| is_path_part(part))
}

/// Whether bytes are UTF-8.
fn is_text(bytes: &[u8]) -> bool
    ensures { result ≡ is_utf8 bytes.now }
{
    match str::from_utf8(bytes) {
        Ok(_) => true,
        Err(_) => false,
    }
}

/// Whether a part may be in a name: it is not empty, and neither `.` nor `..`.
fn is_path_part(part: &[u8]) -> bool
    ensures { result ≡ is_path_part part.now }
{
    !part.is_empty() && part != b".".as_slice() && part != b"..".as_slice()
}

/// Whether a name is a folder of another: the other begins with it and a slash.
pub fn is_folder_of(folder: &[u8], name: &[u8]) -> bool
    ensures { IsTrue result ↔ IsFolderOf folder.now name.now }
{
    match name.strip_prefix(folder) {
        Some(rest) => rest.starts_with(b"/"),
        None => false,
    }
}

/// A list of names, as a listing returns it.
#[derive(Drop)]
pub struct Names {
    /// The names, in the order in which they were added.
    names: Vec<Name>,
}

impl Model for Names {
    ghost use Rattle.std.specs.Prelude.{ℕ, List, All};
    ghost use Rattle.base_core.specs.Name.{IsName};

    // Contracts see the list of the names' bytes.
    ghost Value = { List (List ℕ) };

    ghost view = { λ names. names.names.items };

    // Each element is a valid name.
    ghost invariant = { λ names. All IsName names.names.items };
}

impl Names {
    /// An empty list.
    pub fn new(alloc: Global) -> Names
        ensures { result ≡ [] }
    {
        Names {
            names: Vec::new(alloc),
        }
    }

    /// Adds a name at the end. If out of memory, the name is dropped, and the list is unchanged.
    pub fn push(&mut self, name: Name) -> Result<(), AllocError>
        // On Ok, the name is added at the end of the list.
        ensures ok { OnOk result (self.new ≡ self.old ++ name ∷ []) }
        // An error leaves the list unchanged.
        ensures err { OnErr result (self.new ≡ self.old) }
    {
        self.names.push(name)?;
        Ok(())
    }

    /// How many names there are.
    pub fn len(&self) -> usize
        ensures { result ≡ length self.now }
    {
        self.names.len()
    }

    /// Whether there is no name.
    pub fn is_empty(&self) -> bool
        ensures { result ≡ (length self.now == 0) }
    {
        self.names.is_empty()
    }

    /// A law of the list: each of its elements is a valid name. The call does nothing at run time.
    pub fn are_names(&self)
        ensures { All IsName self.now }
    {
        let _ = &self.names;
    }

    /// The name at the index `i`, counted from 0.
    pub fn get(&self, i: usize) -> &Name
        // The index is that of an element.
        requires { i < length self.now }
        ensures { slice_get self.now i ≡ Some result.now }
    {
        &self.names[i]
    }
}
