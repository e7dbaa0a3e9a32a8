//! Many versions in the same bytes, which may overlap. A version that reaches bytes which an
//! earlier one has passed skips over them in leaps, so that the tests of overlapping texts in a
//! payload (`adb_schema`) take linear time. The contract is that of
//! `OverlappingVersions::is_version`; what a version is is defined in `docs/formats.md`,
//! "Versions". In the clauses `order` and `within` say that offsets rise and are within the bytes,
//! and `bytes` that the bytes stay the same. `some` and `none` say what is known if a place is
//! found, and if none is.

ghost use Rattle.std.specs.Prelude.{◌≡◌, ◌<◌, ◌≤◌, false, length, slice_range, IfOk, IfSome, IfNone, Some};
ghost use Rattle.version_core.specs.Order.{is_version};
ghost use Rattle.version_core.specs.Overlapping.{IsNextPlace, IsSafeSkip, can_rest_follow_place};
ghost use Rattle.version_core.specs.Reading.{unread_len};

use crate::lexeme::{first_token, leading_hex_digits};
use crate::token::Class;
use std::alloc::{AllocError, Global};
use std::marker::Model;

/// How many bytes share one leap. With larger blocks the leaps take less memory, and more bytes are
/// read between two of them.
const BYTES_PER_LEAP: usize = 256;

/// A place in the bytes that a reader of a version reaches: after a token, or between the digits of
/// a hash. It has the class of this token.
#[derive(Clone, Copy)]
struct Place {
    /// The offset of the place in the bytes.
    at: usize,
    /// The class of the token before the place, or of the hash that the place is in.
    class: Class,
}

/// A shortcut over one block of 256 bytes: a place in the block, and a later place. A version that
/// reaches the first place, and does not end before the second, can be read on from the second.
#[derive(Clone, Copy)]
struct Leap {
    /// Where the leap begins.
    from: Place,
    /// Where the leap leads.
    to: Place,
}

/// Bytes that contain versions, and a leap for each block that a version has passed.
#[derive(Drop)]
pub struct OverlappingVersions<'a> {
    /// The bytes that contain the versions.
    bytes: &'a [u8],
    /// A leap for each block of 256 bytes. A leap that is not known yet leads to its own start.
    leaps: Vec<Leap>,
}

impl<'a> Model for OverlappingVersions<'a> {
    ghost use Rattle.std.specs.Prelude.{ℕ, List, All};
    ghost use Rattle.version_core.specs.Overlapping.{IsSafeSkip};

    // Contracts see only the bytes; the leaps are hidden.
    ghost Value = { List ℕ };

    ghost view = { λ versions. versions.bytes.now };

    // Each leap is safe: a version that is at its first place can go on at its second.
    ghost invariant = { λ versions.
        All (λ leap. IsSafeSkip versions.bytes.now leap.from leap.to) versions.leaps.items };
}

impl<'a> OverlappingVersions<'a> {
    /// The bytes, before the first version is looked for.
    pub fn new(alloc: Global, bytes: &'a [u8]) -> OverlappingVersions<'a>
        ensures { result ≡ bytes.entry.now }
    {
        OverlappingVersions {
            bytes,
            leaps: Vec::new(alloc),
        }
    }

    /// Whether the bytes between the offsets `from` and `end` are a version. Where an earlier call
    /// has read the same bytes, it takes one leap per 256 bytes. The first call allocates memory,
    /// an eighth of the size of the bytes.
    pub fn is_version(&mut self, from: usize, end: usize) -> Result<bool, AllocError>
        // The range does not end before it begins.
        requires order { from ≤ end }
        // The end is within the bytes.
        requires within { end ≤ length self.old }
        // On Ok, the result says whether the range is a version.
        ensures value { IfOk result (λ is. is ≡ is_version (slice_range self.old from end)) }
        // The bytes that are read are unchanged.
        ensures bytes { self.new ≡ self.old }
    {
        self.make_leaps()?;
        match first_place(self.bytes, from, end) {
            Some(first) => Ok(self.is_passed(first, end)),
            None => Ok(false),
        }
    }

    /// Whether the bytes between the place `first` and the offset `end` may be the rest of a
    /// version that has reached this place.
    fn is_passed(&mut self, first: Place, end: usize) -> bool
        // The first place is not after the end.
        requires order { first.at ≤ end }
        // The end is within the bytes.
        requires within { end ≤ length self.old }
        // The result says whether the rest up to the end can follow the place in a version.
        ensures value { result ≡ can_rest_follow_place self.old first end }
        // The bytes that are read are unchanged.
        ensures bytes { self.new ≡ self.old }
    {
        // Where the next leap to record begins, and how far the version is read.
        let mut begun = first;
        let mut place = first;
        while place.at < end {
            begun = self.pass(begun, place);
            match self.next_place(place, end) {
                Some(next) => place = next,
                None => return false,
            }
        }
        true
    }

    /// The next place of a version after a place before its end: as far as an earlier version
    /// leads, or else after one token. None if no token of a version follows.
    fn next_place(&self, place: Place, end: usize) -> Option<Place>
        // Bytes are left between the place and the end.
        requires order { place.at < end }
        // The end is within the bytes.
        requires within { end ≤ length self.now }
        // A place that is returned is one to which the first place leads.
        ensures some { IfSome result (IsNextPlace self.now end place) }
        // Without a place, the rest up to the end cannot follow in a version.
        ensures none { IfNone result (can_rest_follow_place self.now place end ≡ false) }
    {
        match self.leap(place, end) {
            Some(to) => Some(to),
            None => place_after_lexeme(self.bytes, place, end),
        }
    }

    /// The place to which a recorded leap leads from `place`, or None if there is no such leap, or
    /// if it leads past the end.
    fn leap(&self, place: Place, end: usize) -> Option<Place>
        // A place that is returned is one to which the first place leads.
        ensures { IfSome result (IsNextPlace self.now end place) }
    {
        let leap = self.leaps.get(place.at / BYTES_PER_LEAP)?;
        let Leap { from, to } = *leap;
        // The leap over this block begins at another place, or after a token of another class.
        if from.at != place.at || from.class != place.class {
            return None;
        }
        // The leap leads nowhere, or past the end.
        if to.at <= place.at || to.at > end {
            return None;
        }
        Some(to)
    }

    /// Records the leap from the place `begun` to `place` if they are in different blocks. Returns
    /// where the next leap begins: at `place` if the leap was recorded, else at `begun`.
    fn pass(&mut self, begun: Place, place: Place) -> Place
        // The leap is safe: a version that is at its first place can go on at its second.
        requires { IsSafeSkip self.old begun place }
        // A leap from the result to `place` is safe too.
        ensures leads { IsSafeSkip self.old result place }
        // The bytes that are read are unchanged.
        ensures bytes { self.new ≡ self.old }
    {
        if place.at / BYTES_PER_LEAP == begun.at / BYTES_PER_LEAP {
            return begun;
        }
        self.remember(begun, place);
        place
    }

    /// Records a leap, in place of any other over the same block.
    fn remember(&mut self, from: Place, to: Place)
        // The leap is safe: a version that is at its first place can go on at its second.
        requires { IsSafeSkip self.old from to }
        // The bytes that are read are unchanged.
        ensures { self.new ≡ self.old }
    {
        let block = from.at / BYTES_PER_LEAP;
        if block < self.leaps.len() {
            self.leaps[block] = Leap { from, to };
        }
    }

    /// Allocates a leap for each block, once.
    fn make_leaps(&mut self) -> Result<(), AllocError>
        // The bytes that are read are unchanged.
        ensures { self.new ≡ self.old }
    {
        if !self.leaps.is_empty() {
            return Ok(());
        }
        // A leap from a place to itself stands for a block without a known leap.
        let place = Place {
            at: 0,
            class: Class::End,
        };
        let nowhere = Leap {
            from: place,
            to: place,
        };
        self.leaps
            .resize(self.bytes.len() / BYTES_PER_LEAP + 1, nowhere)
    }
}

/// The place after the first token of a version that begins at the offset `from`; None if no
/// version begins there. `end` is where the bytes of the version end.
fn first_place(bytes: &[u8], from: usize, end: usize) -> Option<Place>
    // The range does not end before it begins.
    requires order { from ≤ end }
    // The end is within the bytes.
    requires within { end ≤ length bytes.now }
    // If a place is returned, the range is a version exactly if its rest can follow the place.
    ensures some { IfSome result (λ place. (place.at ≤ end)
        × (is_version (slice_range bytes.now from end)
        ≡ can_rest_follow_place bytes.now place end)) }
    // Without a place, the range is no version.
    ensures none { IfNone result (is_version (slice_range bytes.now from end) ≡ false) }
{
    // The class of the first token, and how many of its bytes are skipped at first.
    let (class, len) = first_token(None, &bytes[from..end]);
    if class.is_end_or_stray_class() {
        return None;
    }
    Some(Place {
        at: from + len,
        class,
    })
}

/// The place after the next token, or, within a hash, after its next digits, at most 256 of them.
/// None if no token of a version follows.
fn place_after_lexeme(bytes: &[u8], place: Place, end: usize) -> Option<Place>
    // Bytes are left between the place and the end.
    requires order { place.at < end }
    // The end is within the bytes.
    requires within { end ≤ length bytes.now }
    // A place that is returned is one to which the first place leads.
    ensures some { IfSome result (IsNextPlace bytes.now end place) }
    // Without a place, the rest up to the end cannot follow in a version.
    ensures none { IfNone result (can_rest_follow_place bytes.now place end ≡ false) }
{
    // How many digits of a hash follow the place, of at most one block of bytes.
    let len = (end - place.at).min(BYTES_PER_LEAP);
    let digits = unread_digits(place.class, &bytes[place.at..place.at + len]);
    if digits > 0 {
        return Some(Place {
            at: place.at + digits,
            class: place.class,
        });
    }
    place_after_token(bytes, place, end)
}

/// How many digits at the start of a text belong to the token before it, which has this class: all
/// leading hexadecimal digits if it is a hash, and otherwise none.
fn unread_digits(class: Class, text: &[u8]) -> usize
    ensures { result ≡ unread_len (Some class) text.now }
{
    if class != Class::Hash {
        return 0;
    }
    leading_hex_digits(text).len()
}

/// The place after the next token, if no digit of a hash is before this token. None if no token of
/// a version follows.
fn place_after_token(bytes: &[u8], place: Place, end: usize) -> Option<Place>
    // Bytes are left between the place and the end.
    requires order { place.at < end }
    // The end is within the bytes.
    requires within { end ≤ length bytes.now }
    // No digit of a hash is left before the next token.
    requires none { unread_len (Some place.class) (slice_range bytes.now place.at end) ≡ 0 }
    // A place that is returned is one to which the first place leads.
    ensures some { IfSome result (IsNextPlace bytes.now end place) }
    // Without a place, the rest up to the end cannot follow in a version.
    ensures none { IfNone result (can_rest_follow_place bytes.now place end ≡ false) }
{
    // The class of the next token, and how many of its bytes are skipped at first.
    let (class, len) = first_token(Some(place.class), &bytes[place.at..end]);
    if class.is_end_or_stray_class() {
        return None;
    }
    Some(Place {
        at: place.at + len,
        class,
    })
}
