//! Why a container is refused. `docs/formats.md`, "Container" and "Tests of a container", defines
//! what each test checks and the order of the tests; `docs/commands.md`, "Error lines", defines the
//! line that is printed.

/// A digest of a file's bytes: SHA-1 (FIPS 180-4, 20 bytes), SHA-256 (32 bytes) or SHA-512 (64
/// bytes).
#[derive(Clone, Copy, Debug, PartialEq, Eq)]
pub enum Digest {
    /// A SHA-1 digest.
    Sha1([u8; 20]),
    /// A SHA-256 digest.
    Sha256([u8; 32]),
    /// A SHA-512 digest.
    Sha512([u8; 64]),
}

/// Why a container (apk-v3(5)), or a text database, is refused. `at` is an offset in bytes from the
/// file's start. `word` is the 32-bit word by which the payload refers to the value.
#[derive(Clone, Copy, Debug, PartialEq, Eq)]
pub enum Cause {
    /// The file does not begin as an ADB container does.
    NotAdb,
    /// The container is compressed.
    Compressed,
    /// The file's header (`at` is 0), or the block at this offset, is not complete.
    Truncated {
        at: u64,
    },
    /// The block at this offset has an unknown kind, or a kind that is not allowed there.
    BlockOrder {
        at: u64,
    },
    /// The payload's compatibility version is not 0.
    CompatVersion,
    /// The bytes of the value to which this word refers are not all within the payload.
    Outside {
        word: u32,
    },
    /// The value to which this word refers is of another kind than expected.
    WrongKind {
        word: u32,
    },
    /// The container has this schema, which is not an expected one.
    WrongSchema {
        found: u32,
    },
    /// The payload has at least this many values: one more than the limit, 4,194,304.
    TooLarge {
        count: u32,
    },
    /// A field's value breaks its rule. `place` is 100 times the number of its table plus the
    /// field's number, as in `docs/formats.md`, "Schemas".
    BadText {
        place: u16,
    },
    /// A list has a name twice, at two positions that count from 1. `place` is the field of the
    /// name, as in `BadText`.
    Repeated {
        place: u16,
        first: u32,
        second: u32,
    },
    /// The contents of the file `found` come where those of the file `expected` have to come. Each
    /// file is given by the position of its folder and its position in the folder, both counted
    /// from 1; (0, 0) means none.
    DataOrder {
        expected: (u32, u32),
        found: (u32, u32),
    },
    /// The contents of a file have another length in bytes than its entry says.
    DataSize {
        wanted: u64,
        found: u64,
    },
    /// The contents of a file have another digest than its entry says.
    HashDiffers {
        wanted: Digest,
        found: Digest,
    },
    /// This line of a text database, counted from 1, breaks the grammar of such a database.
    TextLine {
        line: u64,
    },
}
