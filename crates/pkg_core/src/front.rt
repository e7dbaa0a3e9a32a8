//! The front of a container in a tree: its header and its first block. The rules are in
//! `docs/formats.md`, "The other blocks", point 1 of the last list (the front).

ghost use Rattle.std.specs.Prelude.{◌≤◌};

use base_core::{Cause, Disk};
use std::alloc::AllocError;
use thiserror::Error;

/// Why the front of a container is refused.
#[derive(Clone, Copy, Debug, Drop, Error)]
pub enum FrontFault {
    /// The first test that failed.
    #[error("bad container")]
    Bad(Cause),
    /// The tree failed.
    #[error("the tree failed")]
    Disk,
    /// Out of memory.
    #[error("out of memory")]
    Memory,
}

impl From<Cause> for FrontFault {
    ghost use Rattle.std.specs.Prelude.{◌≡◌};
    ghost use Rattle.pkg_core.specs.declared.front.FrontFault.TheVariants.{Bad};

    // What `from` returns.
    ghost from_gives = { λ cause fault. fault ≡ Bad cause };

    /// A failed test becomes `Bad`.
    fn from(cause: Cause) -> FrontFault {
        FrontFault::Bad(cause)
    }
}

impl From<Disk> for FrontFault {
    ghost use Rattle.std.specs.Prelude.{◌≡◌};
    ghost use Rattle.pkg_core.specs.declared.front.FrontFault.TheVariants.{Disk as DiskFault};

    // What `from` returns.
    ghost from_gives = { λ _ fault. fault ≡ DiskFault };

    /// A failed call of the tree becomes `Disk`.
    fn from(_: Disk) -> FrontFault {
        FrontFault::Disk
    }
}

impl From<AllocError> for FrontFault {
    ghost use Rattle.std.specs.Prelude.{◌≡◌};
    ghost use Rattle.pkg_core.specs.declared.front.FrontFault.TheVariants.{Memory};

    // What `from` returns.
    ghost from_gives = { λ _ fault. fault ≡ Memory };

    /// A lack of memory becomes `Memory`.
    fn from(_: AllocError) -> FrontFault {
        FrontFault::Memory
    }
}

/// The front of a container: its schema, the payload of its first block, the file's length in
/// bytes, and the offset after that block. Contracts see, by `Front` of `specs/`, the payload, the
/// length, the offset, and of which files this is the front.
#[derive(Drop)]
pub struct Front {
    /// The schema in the file's header.
    pub(crate) schema: u32,
    /// The payload of the first block.
    pub(crate) payload: Vec<u8>,
    /// How many bytes the file has.
    pub(crate) len: u64,
    /// The offset after the first block and its padding.
    pub(crate) at: u64,
    // The front is within the file.
    ghost within: { at ≤ len },
}

impl Front {
    ghost use Rattle.std.specs.Prelude.{◌≡◌};
    ghost use Rattle.pkg_core.specs.Front.{front_end, front_file_len, front_payload};

    /// The payload of the first block.
    pub fn payload(&self) -> &[u8]
        ensures { result.now ≡ front_payload self.now }
    {
        &self.payload
    }

    /// How many bytes the file of the front has.
    pub fn file_len(&self) -> u64
        ensures { result ≡ front_file_len self.now }
    {
        self.len
    }

    /// The offset after the first block and its padding.
    pub fn end(&self) -> u64
        ensures exact { result ≡ front_end self.now }
        // The offset is within the file.
        ensures within { result ≤ front_file_len self.now }
    {
        self.at
    }
}
