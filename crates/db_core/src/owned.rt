//! Which files the members own.
//! `docs/commands.md`, "Files that several packages list", says which files a member owns;
//! `docs/formats.md`, "The database after a change", says that a database lists of a package's
//! files those that it owns.
ghost use Rattle.std.specs.Prelude.{◌≡◌, ◌<◌, ◌==◌, ◌++◌, ◌∷◌, [], Some, length, slice_get, OnOk, OnErr};

use std::alloc::{AllocError, Global};
use std::marker::Model;

/// For each file that members list, in the order of members, folders and files, whether its member
/// owns it.
#[derive(Drop)]
pub struct Owned {
    /// The flags, one for each file that members list.
    flags: Vec<bool>,
}

impl Model for Owned {
    ghost use Rattle.std.specs.Prelude.{Bool, List};

    // Contracts see the list of flags.
    ghost Value = { List Bool };

    // The flags are the items of the vector.
    ghost view = { λ owned. owned.flags.items };
}

impl Owned {
    /// A list of no flags, for no files.
    pub fn new(alloc: Global) -> Owned
        ensures { result ≡ [] }
    {
        Owned {
            flags: Vec::new(alloc),
        }
    }

    /// The list of these flags, one for each file.
    pub fn of(flags: Vec<bool>) -> Owned
        ensures { result ≡ flags.items }
    {
        Owned { flags }
    }

    /// Adds the flag of the next file. A refused call changes nothing.
    ///
    /// # Errors
    ///
    /// Out of memory.
    pub fn push(&mut self, owned: bool) -> Result<(), AllocError>
        // On Ok, the flag is added at the end.
        ensures ok { OnOk result (self.new ≡ self.old ++ owned ∷ []) }
        // An error leaves the flags unchanged.
        ensures err { OnErr result (self.new ≡ self.old) }
    {
        self.flags.push(owned)?;
        Ok(())
    }

    /// How many flags (and files) the list has.
    pub fn len(&self) -> usize
        ensures { result ≡ length self.now }
    {
        self.flags.len()
    }

    /// Whether the list has no file.
    pub fn is_empty(&self) -> bool
        ensures { result ≡ (length self.now == 0) }
    {
        self.flags.is_empty()
    }

    /// Whether the file at a place of the list, counted from 0, is owned by the member that lists
    /// it.
    pub fn get(&self, i: usize) -> bool
        // The index is that of an element.
        requires { i < length self.now }
        ensures { slice_get self.now i ≡ Some result }
    {
        self.flags[i]
    }

    /// The flags of all files, in their order.
    pub fn as_slice(&self) -> &[bool]
        ensures { result.now ≡ self.now }
    {
        &self.flags
    }
}
