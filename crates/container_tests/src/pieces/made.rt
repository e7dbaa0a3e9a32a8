//! Makes the packages that the rows ask about, of several files, with a flaw or without. The layout
//! is in `docs/formats.md`, "Container", "Values" and "The other blocks".

ghost use Rattle.std.specs.Prelude.{◌<◌, ◌^◌, length};

use row_lines::Bytes;
use sha1::Sha1;
use sha2::Digest;
use std::alloc::{AllocError, Global};

/// The first 24 bytes of a payload. Its head, in which the word of the root is not set yet, is
/// followed by the information of the package `a` of version `1`. The object of the information is
/// at offset 12.
const INFO: &[u8] = b"\0\0\0\0\0\0\0\0\x01a\x011\x03\0\0\0\x08\0\0\x80\x0a\0\0\x80";

/// A flaw that a package is made with.
#[derive(Clone, Copy)]
pub(crate) enum Flaw {
    /// No flaw.
    None,
    /// The byte at this offset of the last file differs from that of which the digest was made.
    Spoiled(usize),
    /// The last block of contents is replaced by a copy of the first one.
    Repeated,
    /// The payload of the last block of contents is cut to this length.
    Shortened(usize),
}

/// The contents of a file of this length: the bytes 0 to 250, again and again.
pub(crate) fn bytes_of(alloc: Global, len: u32) -> Result<Vec<u8>, AllocError> {
    let mut bytes = Vec::new(alloc);
    for i in 0..len {
        bytes.push((i % 251) as u8)?;
    }
    Ok(bytes)
}

/// The eight bytes that a block of contents begins with: the position of the folder, and that of
/// the file in it. Both count from 1.
pub(crate) fn positions(folder: u32, file: u32) -> [u8; 8] {
    (u64::from(file) << 32 | u64::from(folder)).to_le_bytes()
}

/// Sets the byte at this offset to 255, which is no byte of a file. Shorter bytes stay as they are.
pub(crate) fn spoil(bytes: &mut [u8], at: usize) {
    if at < bytes.len() {
        bytes[at] = 255;
    }
}

/// The container of a package with files of these sizes in one folder, and with this flaw.
pub(crate) fn package_of(alloc: Global, sizes: &[u32], flaw: Flaw) -> Result<Vec<u8>, AllocError> {
    let mut file = Bytes::new(alloc);
    file.push(b"ADB.pckg");
    // Kind 0: the block of the values.
    add_block(&mut file, 0, &payload_of(alloc, sizes)?);
    for i in 0..sizes.len() {
        if sizes[i] > 0 {
            // Only the last file has the flaw.
            let flaw = if i + 1 == sizes.len() {
                flaw
            } else {
                Flaw::None
            };
            // Kind 2: a block of contents. An empty file has none.
            add_block(&mut file, 2, &contents_of(alloc, sizes, i, flaw)?);
        }
    }
    file.finish()
}

/// The payload of the block with the contents of the file with the index `i`, counted from 0, with
/// a flaw. It has the positions of the folder and of the file in it, and then the bytes of the
/// file. Without a flaw, none of these bytes is 255.
fn contents_of(alloc: Global, sizes: &[u32], i: usize, flaw: Flaw) -> Result<Vec<u8>, AllocError>
    // The index is that of one of the files.
    requires { i < length sizes.now }
{
    let i = match flaw {
        Flaw::Repeated => 0,
        _ => i,
    };
    // All files are in folder 1.
    let mut payload = positions(1, low_word(i) + 1).to_vec(alloc)?;
    payload.extend_from_slice(&bytes_of(alloc, sizes[i])?)?;
    match flaw {
        // The positions are eight bytes.
        Flaw::Spoiled(at) => spoil(&mut payload, at.saturating_add(8)),
        Flaw::Shortened(len) => payload.truncate(len),
        Flaw::None | Flaw::Repeated => {}
    }
    Ok(payload)
}

/// The payload of a package with files of these sizes, named `a`, `b` and so on. It begins with
/// `INFO`, in which the object at offset 12 is the package's information. The top four bits of a
/// word are its kind: 0x1 for a number, 0x8 for a blob, 0xd for an array, 0xe for an object.
pub(crate) fn payload_of(alloc: Global, sizes: &[u32]) -> Result<Vec<u8>, AllocError> {
    let mut values = Bytes::new(alloc);
    values.push(INFO);
    let root = add_root(alloc, sizes, &mut values)?;
    let mut payload = values.finish()?;
    // The word of the root is in the bytes 4 to 7.
    if payload.len() >= 8 {
        payload[4..8].copy_from_slice(&(0xe000_0000 | root).to_le_bytes());
    }
    Ok(payload)
}

/// Adds the files of these sizes, their folder, and the object of the package, which is the root.
/// Returns the offset of the root.
fn add_root(alloc: Global, sizes: &[u32], payload: &mut Bytes) -> Result<u32, AllocError> {
    // The words of the files.
    let mut files = Vec::new(alloc);
    let mut letter = b'a';
    for size in sizes {
        let hash = Sha1::digest(&bytes_of(alloc, *size)?);
        files.push(0xe000_0000 | add_file(payload, letter, *size, &hash))?;
        letter = letter.wrapping_add(1);
    }
    // From here on, the names are offsets: of the array of files, the folder, and the array of
    // folders.
    let files = add_words(payload, &files);
    let folder = add_words(payload, &[0, 0, 0xd000_0000 | files]);
    let folders = add_words(payload, &[0xe000_0000 | folder]);
    Ok(add_words(payload, &[0xe000_000c, 0xd000_0000 | folders]))
}

/// Adds a file whose name is one letter, with its size and its digest of 20 bytes. Returns the
/// offset of its object.
fn add_file(payload: &mut Bytes, letter: u8, size: u32, hash: &[u8]) -> u32 {
    let name = low_word(payload.as_slice().len());
    // Two blobs: the name of the file, and its digest. A blob begins with its length, which is one
    // byte.
    payload.push(&[1, letter, 20]);
    payload.push(hash);
    // The fields: name, access list, size, time and hash.
    let words = [
        0x8000_0000 | name,
        0,
        0x1000_0000 | size,
        0,
        0x8000_0000 | (name + 2),
    ];
    add_words(payload, &words)
}

/// Adds the object or the array of these words, at an offset that is a multiple of four, and
/// returns the offset. Before the words is their number and 1.
fn add_words(payload: &mut Bytes, words: &[u32]) -> u32 {
    for _ in 0..(4 - payload.as_slice().len() % 4) % 4 {
        payload.push(&[0]);
    }
    let at = low_word(payload.as_slice().len());
    payload.push(&low_word(words.len().saturating_add(1)).to_le_bytes());
    for word in words {
        payload.push(&word.to_le_bytes());
    }
    at
}

/// The low 28 bits of a number, which are the offset in a word of a payload.
pub(crate) fn low_word(number: usize) -> u32
    // The result has at most 28 bits.
    ensures { result < 2 ^ 28 }
{
    (number & 0x0fff_ffff) as u32
}

/// Adds a block of the kind of this number (0 is values, 2 contents), and pads it to a multiple of
/// eight bytes.
fn add_block(file: &mut Bytes, kind: u32, payload: &[u8]) {
    // The header of a block has the block's kind and length; the header itself is four bytes.
    let raw = low_word(payload.len()) + 4;
    file.push(&(kind << 30 | raw).to_le_bytes());
    file.push(payload);
    for _ in 0..(8 - raw % 8) % 8 {
        file.push(&[0]);
    }
}
