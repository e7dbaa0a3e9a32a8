//! The header of a block in a file of a tree. The rules are in `docs/formats.md`, "Container", the
//! second paragraph and the table of a long header.

ghost use Rattle.std.specs.Prelude.{◌≡◌, ◌≤◌, ◌<◌, ◌+◌, ◌^◌, ℕ, [], ◌++◌, length, IfOk};
ghost use Rattle.adb_block.specs.Frames.{IsHeadPrefix, head_len};
ghost use Rattle.pkg_core.specs.Seen.{AreBytesRead, ReadsFile, tree_fault};

use adb_block::head_len;
use base_core::{Disk, Name, Tree};
use std::marker::Model;

/// The bytes read of a block's header: a short header has 4, an extended one 16. Contracts see the
/// bytes.
#[derive(Drop)]
pub struct HeadBytes {
    /// Room for an extended header; unread bytes are 0.
    bytes: [u8; 16],
    /// How many bytes were read: 0, 4 or 16.
    len: usize,
}

impl Model for HeadBytes {
    ghost use Rattle.std.specs.Prelude.{ℕ, ◌≤◌, List, take};

    ghost Value = { List ℕ };

    // Contracts see the bytes that were read.
    ghost view = { λ head. take head.len head.bytes };

    // At most 16 bytes were read.
    ghost invariant = { λ head. head.len ≤ 16 };
}

impl HeadBytes {
    /// The bytes of the header that were read.
    pub fn bytes(&self) -> &[u8]
        ensures { result.now ≡ self.now }
    {
        &self.bytes[..self.len]
    }

    /// Reads the header of the block at an offset, with this many bytes left in the file. It reads
    /// no byte outside of the header. If the header is not complete, it reads at most the first
    /// four bytes.
    ///
    /// # Errors
    ///
    /// `Disk` if the tree failed.
    pub fn read<T: Tree>(tree: &mut T, name: &Name, at: u64, left: u64) -> Result<HeadBytes, Disk>
        // Offsets have 64 bits.
        requires { at + left < 2 ^ 64 }
        // These bytes were read at the offset of the block.
        ensures seen { IfOk result (λ head. (file_len : ℕ)
            → AreBytesRead (T.history tree.old) name.now file_len at head) }
        // They are the first bytes of the header: all of its bytes, if the file has them all.
        ensures holds { IfOk result (λ head. IsHeadPrefix head left) }
        // No byte after the header was read.
        ensures short { IfOk result (λ head. length head ≤ head_len head) }
        // The tree is unchanged. `Disk` is returned only if the tree failed, and no call is a
        // misuse if the tree has a file of this length under the name.
        ensures tree { (file_len : ℕ) → at + left ≤ file_len
            → ReadsFile name.now file_len tree_fault (T.history tree.old) (T.history tree.new)
            (T.counts tree.old) (T.counts tree.new) result }
    {
        // The first four bytes decide between a short header and one with twelve more bytes.
        if left < 4 {
            return Ok(no_head());
        }
        let mut first = [0; 4];
        tree.read_at(name, at, &mut first)?;
        let len = head_len(&first);
        // A short header is complete; the rest of an extended one that the file cuts off is not
        // read.
        if len == 4 || len > left {
            return Ok(head_of_four(first));
        }
        let mut rest = [0; 12];
        tree.read_at(name, at + 4, &mut rest)?;
        Ok(head_of_sixteen(first, rest))
    }
}

/// A header of which no byte was read, as fewer than four bytes are left in the file.
fn no_head() -> HeadBytes
    ensures { result ≡ [] }
{
    HeadBytes {
        bytes: [0; 16],
        len: 0,
    }
}

/// A header of which four bytes were read: a short one, or an extended one that the file cuts off.
#[tactic(auto, using(crate::proofs::Heads::four_kept))]
fn head_of_four(first: [u8; 4]) -> HeadBytes
    ensures { result ≡ first }
{
    let mut bytes = [0; 16];
    bytes[..4].copy_from_slice(&first);
    HeadBytes { bytes, len: 4 }
}

/// The header of which all sixteen bytes were read: an extended one.
#[tactic(auto, using(crate::proofs::Heads::sixteen_kept))]
fn head_of_sixteen(first: [u8; 4], rest: [u8; 12]) -> HeadBytes
    ensures { result ≡ first ++ rest }
{
    let mut bytes = [0; 16];
    bytes[..4].copy_from_slice(&first);
    bytes[4..].copy_from_slice(&rest);
    HeadBytes { bytes, len: 16 }
}
