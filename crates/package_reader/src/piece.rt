//! The buffer of a piece, and why there is no next one. The rules are in `docs/formats.md`, "The
//! other blocks", point 2 of the last list (the pieces).

ghost use Rattle.std.specs.Prelude.{◌≡◌, ◌≤◌, ◌+◌, ℕ, [], length, IfErr, OnOk};
ghost use Rattle.pkg_core.specs.Seen.{AreBytesRead, ReadsFile};
ghost use Rattle.pkg_core.specs.declared.file.TheConstants.{PIECE_LEN};
ghost use Rattle.package_reader.specs.declared.piece.PieceFault.TheVariants.{Disk as DiskFault};

use base_core::{Cause, Disk, Name, Tree};
use pkg_core::PIECE_LEN;
use std::marker::Model;
use thiserror::Error;

/// A buffer for one piece, of up to 65,536 bytes. Contracts see its bytes.
#[derive(Drop)]
pub struct Piece {
    /// Room for the longest piece.
    bytes: [u8; PIECE_LEN],
    /// How many bytes the piece has.
    len: usize,
}

impl Model for Piece {
    ghost use Rattle.std.specs.Prelude.{ℕ, ◌≤◌, List, take};
    ghost use Rattle.pkg_core.specs.declared.file.TheConstants.{PIECE_LEN};

    ghost Value = { List ℕ };

    // Contracts see the bytes of the piece.
    ghost view = { λ piece. take piece.len piece.bytes };

    // A piece has at most 65,536 bytes.
    ghost invariant = { λ piece. piece.len ≤ PIECE_LEN };
}

impl Piece {
    /// A piece of no bytes. It allocates no memory.
    pub fn new() -> Piece
        ensures { result ≡ [] }
    {
        Piece {
            bytes: [0; PIECE_LEN],
            len: 0,
        }
    }

    /// The bytes of the piece, at most 65,536 (`PIECE_LEN` of `pkg_core`).
    pub fn bytes(&self) -> &[u8]
        ensures bytes { result.now ≡ self.now }
        // A piece has at most 65,536 bytes.
        ensures few { length result.now ≤ PIECE_LEN }
    {
        &self.bytes[..self.len]
    }

    /// Reads this many bytes of a file, from an offset on, into the piece. After an error the bytes
    /// of the piece are unspecified.
    pub(crate) fn read<T: Tree>(
        &mut self,
        tree: &mut T,
        name: &Name,
        at: u64,
        len: usize,
    ) -> Result<(), PieceFault>
        // No more bytes are asked for than a piece may have.
        requires { len ≤ PIECE_LEN }
        // On Ok, the piece has `len` bytes.
        ensures len { OnOk result (length self.new ≡ len) }
        // The only error is that the tree failed.
        ensures disk { IfErr result (λ fault. fault ≡ DiskFault) }
        // The bytes of the piece are those that were read.
        ensures seen { OnOk result ((file_len : ℕ)
            → AreBytesRead (T.history tree.old) name.now file_len at self.new) }
        // The tree is unchanged. `Disk` is returned only if the tree failed, and no call is a
        // misuse if the tree has a file of this length under the name.
        ensures tree { (file_len : ℕ) → at + len ≤ file_len
            → ReadsFile name.now file_len DiskFault (T.history tree.old) (T.history tree.new)
            (T.counts tree.old) (T.counts tree.new) result }
    {
        tree.read_at(name, at, &mut self.bytes[..len])?;
        self.len = len;
        Ok(())
    }
}

/// Why there is no next piece.
#[derive(Clone, Copy, Debug, PartialEq, Eq, Drop, Error)]
pub enum PieceFault {
    /// The first test that failed.
    #[error("bad container")]
    Bad(Cause),
    /// The tree failed.
    #[error("the tree failed")]
    Disk,
}

impl From<Cause> for PieceFault {
    ghost use Rattle.std.specs.Prelude.{◌≡◌};
    ghost use Rattle.package_reader.specs.declared.piece.PieceFault.TheVariants.{Bad};

    // What `from` returns.
    ghost from_gives = { λ cause fault. fault ≡ Bad cause };

    /// A failed test becomes `Bad`.
    fn from(cause: Cause) -> PieceFault {
        PieceFault::Bad(cause)
    }
}

impl From<Disk> for PieceFault {
    ghost use Rattle.std.specs.Prelude.{◌≡◌};
    ghost use Rattle.package_reader.specs.declared.piece.PieceFault.TheVariants.{Disk as DiskFault};

    // What `from` returns.
    ghost from_gives = { λ _ fault. fault ≡ DiskFault };

    /// A failed call of the tree becomes `Disk`.
    fn from(_: Disk) -> PieceFault {
        PieceFault::Disk
    }
}
