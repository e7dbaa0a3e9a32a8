//! The reader of a container's front in a tree. The rules are in `docs/formats.md`, "The other
//! blocks", point 1 of the last list (the front); the tests and their order in "Container", the
//! table.

ghost use Rattle.std.specs.Prelude.{◌≡◌, ◌≤◌, ◌+◌, ◌-◌, ℕ, List, Option, None, true, length, min, take, IfOk, IfErr, IfSome};
ghost use Rattle.adb_block.specs.Framing.{next_block_result_at_offset};
ghost use Rattle.adb_block.specs.Frames.{IsHeadPrefix, IsFrameOfBlockResult, head_len, raw_size};
ghost use Rattle.adb_block.specs.Header.{schema_of_header};
ghost use Rattle.adb_block.specs.BlockWithoutOffset.{may_be_next_kind, padding_of};
ghost use Rattle.base_core.specs.Calls.{IfObservable};
ghost use Rattle.base_core.specs.Read.{OnlyReads};
ghost use Rattle.base_core.specs.Tree.{files_of};
ghost use Rattle.pkg_core.specs.Front.{IsFrontOf, IsFrontRead, IsDiskOrMemoryFault, IsFrontReadOfFile, front_end, front_file_len};
ghost use Rattle.pkg_core.specs.Seen.{AreBytesRead, HasBytesAtOffset, IsSeenIn, ReadsFile};
ghost use Rattle.pkg_core.specs.declared.front.FrontFault.TheVariants.{Disk as DiskFault};

use crate::front::{Front, FrontFault};
use crate::head::HeadBytes;
use adb_block::{Blocks, Frame, frame_of, padding_of};
use adb_view::Adb;
use base_core::{Cause, Name, Tree};
use std::alloc::Global;
use std::marker::Model;

/// Reads the front of a container (apk-v3(5)): the file's header, its schema, which must be this
/// one, and the first block with the head of its payload. None if and only if the file is absent.
/// No other part of the file is read, and the tree is unchanged, whatever the result.
///
/// # Errors
///
/// `Bad` with the cause of the first failed test, `Disk` if the tree failed, or `Memory`.
pub fn read_front<T: Tree>(
    alloc: Global,
    tree: &mut T,
    name: &Name,
    schema: u32,
) -> Result<Option<Front>, FrontFault>
    // The result is right for some file, or for none (`found`). If the tree is observable, this is
    // what the tree has under the name.
    ensures front { (found : Option (List ℕ)) × IfObservable (T.history tree.old) (λ v.
        found ≡ files_of v name.now) × IsFrontRead schema found result }
    // A returned front is that of each file of its length that begins with the bytes that were read
    // (`seen`). These end where the front ends.
    ensures seen { IfOk result (λ found. IfSome found (λ front. (seen : List ℕ)
        × IsSeenIn (T.history tree.old) name.now (front_file_len front) 0 seen
        × (front_end front ≡ length seen)
        × ((file : List ℕ) → length file ≡ front_file_len front → HasBytesAtOffset file 0 seen
        → IsFrontOf schema file front))) }
    // The tree is unchanged. `Disk` (below: `DiskFault`) is returned only if the tree failed, and
    // no call is a misuse if the tree is observable.
    ensures tree { OnlyReads DiskFault (T.history tree.old) (T.history tree.new)
        (T.counts tree.old) (T.counts tree.new) result }
{
    match tree.size(name)? {
        Some(len) => {
            let front = read_present(alloc, tree, name, len, schema)?;
            Ok(Some(front))
        }
        None => Ok(None),
    }
}

/// The header of a file: its first bytes, at most eight, and all that there are of fewer. Contracts
/// see the bytes.
#[derive(Drop)]
struct Header {
    /// `ADB.` and the schema; unread bytes are 0.
    bytes: [u8; 8],
    /// How many bytes were read.
    len: usize,
}

impl Model for Header {
    ghost use Rattle.std.specs.Prelude.{ℕ, ◌≤◌, List, take};

    ghost Value = { List ℕ };

    // Contracts see the bytes that were read.
    ghost view = { λ header. take header.len header.bytes };

    // At most 8 bytes were read.
    ghost invariant = { λ header. header.len ≤ 8 };
}

impl Header {
    /// Reads the first bytes of a file of this length.
    fn read<T: Tree>(tree: &mut T, name: &Name, len: u64) -> Result<Header, FrontFault>
        // Eight bytes are read, or all bytes of a shorter file.
        ensures len { IfOk result (λ header. length header ≡ min len 8) }
        // These are the first bytes of the file.
        ensures seen { IfOk result (λ header. (file_len : ℕ)
            → AreBytesRead (T.history tree.old) name.now file_len 0 header) }
        // The only error is that the tree failed.
        ensures disk { IfErr result (λ fault. fault ≡ DiskFault) }
        // The tree is unchanged. `Disk` (below: `DiskFault`) is returned only if the tree failed,
        // and no call is a misuse if the tree has a file of this length under the name.
        ensures tree { ReadsFile name.now len DiskFault (T.history tree.old) (T.history tree.new)
            (T.counts tree.old) (T.counts tree.new) result }
    {
        let mut bytes = [0; 8];
        // How many bytes of the header the file has.
        let some = len.min(8) as usize;
        tree.read_at(name, 0, &mut bytes[..some])?;
        Ok(Header { bytes, len: some })
    }

    /// The schema in the header, or the first failed test.
    fn schema(&self) -> Result<u32, Cause>
        ensures { result ≡ schema_of_header self.now }
    {
        let blocks = Blocks::new(&self.bytes[..self.len])?;
        Ok(blocks.schema())
    }
}

/// Reads this many bytes of a file, from an offset on.
fn read_payload<T: Tree>(
    alloc: Global,
    tree: &mut T,
    name: &Name,
    at: u64,
    len: u64,
) -> Result<Vec<u8>, FrontFault>
    // On Ok, the result has this many bytes.
    ensures len { IfOk result (λ payload. length payload.items ≡ len) }
    // These bytes were read at this offset of the file.
    ensures seen { IfOk result (λ payload. (file_len : ℕ)
        → AreBytesRead (T.history tree.old) name.now file_len at payload.items) }
    // An error is that the tree failed, or out of memory.
    ensures good { IfErr result (λ fault. IsDiskOrMemoryFault fault) }
    // The tree is unchanged. `Disk` (below: `DiskFault`) is returned only if the tree failed, and
    // no call is a misuse if the tree has a file of this length under the name.
    ensures tree { (file_len : ℕ) → at + len ≤ file_len → ReadsFile name.now file_len DiskFault
        (T.history tree.old) (T.history tree.new) (T.counts tree.old) (T.counts tree.new) result }
{
    let mut payload = vec![in alloc; 0u8; len as usize]?;
    tree.read_at(name, at, &mut payload)?;
    Ok(payload)
}

/// Reads the front of a file of this length. The header of the first block is at offset 8, after
/// the file's.
fn read_present<T: Tree>(
    alloc: Global,
    tree: &mut T,
    name: &Name,
    len: u64,
    schema: u32,
) -> Result<Front, FrontFault>
    // The front has the given length of the file.
    ensures len { IfOk result (λ front. front.len ≡ len) }
    // The result is right for each file of this length that begins with the bytes that were read
    // (`seen`).
    ensures front { (seen : List ℕ) × IsSeenIn (T.history tree.old) name.now len 0 seen
        × ((file : List ℕ) → length file ≡ len → HasBytesAtOffset file 0 seen
        → IsFrontReadOfFile schema result (length seen) file) }
    // The tree is unchanged. `Disk` (below: `DiskFault`) is returned only if the tree failed, and
    // no call is a misuse if the tree has a file of this length under the name.
    ensures tree { ReadsFile name.now len DiskFault (T.history tree.old) (T.history tree.new)
        (T.counts tree.old) (T.counts tree.new) result }
{
    let header = Header::read(tree, name, len)?;
    let found = header.schema()?;
    if found != schema {
        return Err(FrontFault::Bad(Cause::WrongSchema { found }));
    }
    // The file's header has eight bytes, and the first block follows it.
    let head = HeadBytes::read(tree, name, 8, len - 8)?;
    let framed = first_framed(len - 8, &head)?;
    let padding = padding_after(framed, len - 8);
    // The offset of the payload of the first block.
    let start = 8 + framed.head_len;
    let payload = read_payload(alloc, tree, name, start, framed.payload_len)?;
    // Only the head of the payload is tested here; `Contents::new` tests the values.
    Adb::new(&payload)?;
    Ok(Front {
        schema,
        payload,
        len,
        at: start + framed.payload_len + padding,
    })
}

/// The frame of a file's first block by its header, with this many bytes left after the file's own
/// header of eight bytes.
fn first_framed(left: u64, head: &HeadBytes) -> Result<Frame, Cause>
    // These are the first bytes of the block's header: all of its bytes, if the file has them all.
    requires holds { IsHeadPrefix head.now left }
    // No byte after the header is among them.
    requires short { length head.now ≤ head_len head.now }
    // The result is that of the tests, for any rest of the file that begins with these bytes.
    ensures exact { (bytes : List ℕ) → length bytes ≡ left → take (length head.now) bytes ≡ head.now
        → IsFrameOfBlockResult result bytes (next_block_result_at_offset None 8 bytes) }
    // A first block may have the kind of this frame.
    ensures order { IfOk result (λ framed. may_be_next_kind None framed.kind ≡ true) }
    // The block ends within the file, and its whole header was read.
    ensures within { IfOk result (λ framed. (raw_size framed ≤ left)
        × (framed.head_len ≡ length head.now)) }
{
    match frame_of(None, 8, head.bytes(), left)? {
        Some(framed) => Ok(framed),
        // A file that ends before its first block is a fault, and not the end.
        None => unreachable!(),
    }
}

/// How many bytes of padding follow a block, as far as the file has them, with this many bytes left
/// from its header on.
fn padding_after(framed: Frame, left: u64) -> u64
    // The block ends within these bytes.
    requires { raw_size framed ≤ left }
    ensures { result ≡ min (padding_of (raw_size framed)) (left - raw_size framed) }
{
    let raw = framed.head_len + framed.payload_len;
    let padding = padding_of(raw as usize) as u64;
    padding.min(left - raw)
}
