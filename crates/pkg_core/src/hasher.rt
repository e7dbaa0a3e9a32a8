//! A digest that is computed in pieces. The rules are in `docs/formats.md`, "The other blocks", the
//! digests.

ghost use Rattle.std.specs.Prelude.{◌≡◌, ℕ, List, [], ◌++◌};
ghost use Rattle.pkg_core.specs.Contents.{fault_if_digest_is_not_of_bytes};
ghost use Rattle.pkg_core.specs.Hashing.{HasHashedMessage};

use crate::checks::{sha1_fault, sha256_fault, sha512_fault};
use base_core::Cause;
use sha1::Sha1;
use sha2::{Digest, Sha256, Sha512};

/// A hasher of the function that a digest's length selects: SHA-1, SHA-256 or SHA-512 (FIPS 180-4).
/// A digest of another length is ignored.
#[derive(Drop)]
pub enum Hasher {
    /// For a digest of 20 bytes.
    Sha1(Sha1),
    /// For a digest of 32 bytes.
    Sha256(Sha256),
    /// For a digest of 64 bytes.
    Sha512(Sha512),
    /// For a digest of another length: nothing is compared.
    Other,
}

impl Hasher {
    /// A hasher before the first byte, whose digest will be compared with this one. The lengths are
    /// those of SHA-1, SHA-256 and SHA-512.
    #[tactic(auto, unfolding(crate::specs::Contents::fault_if_digest_is_not_of_bytes))]
    pub fn new(hash: &[u8]) -> Hasher
        // The hasher has taken no bytes yet.
        ensures { HasHashedMessage result hash.now [] }
    {
        // The lengths in bytes of a SHA-1, a SHA-256 and a SHA-512.
        match hash.len() {
            20 => Hasher::Sha1(Sha1::new()),
            32 => Hasher::Sha256(Sha256::new()),
            64 => Hasher::Sha512(Sha512::new()),
            _ => Hasher::Other,
        }
    }

    /// Takes further bytes of the message.
    pub fn update(&mut self, bytes: &[u8])
        // If the hasher had taken `so_far`, it has now taken `so_far` and these bytes.
        ensures { (hash so_far : List ℕ) → HasHashedMessage self.old hash so_far
            → HasHashedMessage self.new hash (so_far ++ bytes.now) }
    {
        match self {
            Hasher::Sha1(hasher) => hasher.update(bytes),
            Hasher::Sha256(hasher) => hasher.update(bytes),
            Hasher::Sha512(hasher) => hasher.update(bytes),
            Hasher::Other => {}
        }
    }

    /// Why the bytes that were taken do not have the digest `hash`; None if they have it.
    #[tactic(auto, unfolding(crate::specs::Contents::fault_if_digest_is_not_of_bytes))]
    pub fn fault(self, hash: &[u8]) -> Option<Cause>
        // The fault is that of `so_far`, all bytes that were taken.
        ensures { (so_far : List ℕ) → HasHashedMessage self hash.now so_far
            → result ≡ fault_if_digest_is_not_of_bytes hash.now so_far }
    {
        match self {
            Hasher::Sha1(hasher) if hash.len() == 20 => sha1_fault(hash, hasher.finalize()),
            Hasher::Sha256(hasher) if hash.len() == 32 => sha256_fault(hash, hasher.finalize()),
            Hasher::Sha512(hasher) if hash.len() == 64 => sha512_fault(hash, hasher.finalize()),
            // A digest of another length is not compared.
            _ => None,
        }
    }
}
