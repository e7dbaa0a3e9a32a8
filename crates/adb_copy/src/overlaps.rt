//! Long texts of a payload that overlap. If equal texts overlap, their bytes have a period. The
//! ranges that were tested for a period are remembered, so that few of the equal texts in them are
//! read. The README of this crate describes the method, in the paragraph on periods; no document
//! has a rule for it. *HasPeriod* of `specs/Known.antt` is what a range promises. All of it only
//! saves time.

ghost use Rattle.std.specs.Prelude.{◌≡◌, ◌<◌, ◌≤◌, ◌+◌, ℕ, List, [], All, length, take, drop, IfOk, IfSome, OnOk};
ghost use Rattle.std.specs.Bool.{OnTrue};
ghost use Rattle.adb_copy.specs.Known.{HasPeriod, AreEqualByPeriod, IsPhaseOf};
ghost use Rattle.adb_view.specs.Values.{text_in, value_at};
ghost use Rattle.adb_view.specs.declared.tables.Kind.TheVariants as Kinds;
ghost use Rattle.adb_view.specs.Adb.{payload_of};

use adb_view::{Adb, Val};
use std::alloc::{AllocError, Global};
use std::collections::BTreeMap;

/// The payload is divided into stretches. For a text of `len` bytes, a stretch has `len / PART + 1`
/// bytes. Two equal texts that begin in the same stretch overlap, so their bytes have a period.
/// With a greater `PART` fewer periods are found; with a smaller one more bytes are tested.
const PART: usize = 4;

/// How many bytes next to a text are compared at once. The bytes that remain are compared one by
/// one. Any number is correct.
const STEP: usize = 64;

/// Where a text is in its payload.
#[derive(Clone, Copy)]
pub(crate) struct TextPlace {
    /// The offset in the payload at which the text begins.
    pub from: usize,
    /// How many bytes the text has.
    pub len: usize,
}

impl TextPlace {
    /// The number of the stretch of the payload in which the text begins (`PART`), counted from 0.
    fn stretch(self) -> usize {
        self.from / (self.len / PART + 1)
    }
}

/// A range of a payload's bytes that has a period: each of its bytes, except in the first period,
/// equals the byte one period before.
#[derive(Clone, Copy)]
pub(crate) struct PeriodicRange {
    /// The offset in the payload of the first byte of the range.
    pub from: usize,
    /// The offset in the payload after the last byte of the range.
    pub end: usize,
    /// How many bytes one period has.
    pub period: usize,
}

impl PeriodicRange {
    /// The phase of a text: its distance from the beginning of a period. None if the text is not in
    /// the range.
    fn phase_of(self, text: TextPlace) -> Option<usize>
        // The phase of a text in the range is right.
        ensures { IfSome result (IsPhaseOf self text) }
    {
        if text.from < self.from || text.len > self.end || text.from > self.end - text.len {
            return None;
        }
        (text.from - self.from).checked_rem(self.period)
    }

    /// Whether the range proves that two texts are equal: both texts are in the range, and they
    /// have the same phase and the same length.
    fn shows_equal(self, left: TextPlace, right: TextPlace) -> bool
        // On true, the texts are equal in each payload in which the range has its period.
        ensures { OnTrue result (AreEqualByPeriod self left right) }
    {
        match (self.phase_of(left), self.phase_of(right)) {
            // Both texts are in the range: `phase` is that of `left`, `other` that of `right`.
            (Some(phase), Some(other)) => phase == other && left.len == right.len,
            _ => false,
        }
    }
}

/// Ranges of a payload that have a period, and the texts by which the ranges were found. Only
/// `ranges` is trusted. What the four maps return is tested when it is used.
#[derive(Drop)]
pub struct Overlaps {
    /// The ranges that were found.
    ranges: Vec<PeriodicRange>,
    /// Maps the length and the stretch of a text to the index in `ranges` of the last range that
    /// was found around such a text.
    latest: BTreeMap<(usize, usize), usize>,
    /// Maps the index of a range and a phase in this range to the word of a remembered text.
    words: BTreeMap<(usize, usize), u32>,
    /// Maps the word of a text in the draft and a stretch of the payload to the offset of the last
    /// remembered text with this word there.
    text_offsets: BTreeMap<(u32, usize), usize>,
    /// Maps the relative places of two equal texts (`repeat_place`) to the index in `ranges` of the
    /// last range that was found with such texts.
    repeats: BTreeMap<(usize, usize, usize), usize>,
}

impl Overlaps {
    /// The object at the beginning, when no text and no range is remembered.
    pub(crate) fn new(alloc: Global) -> Overlaps
        ensures { result.ranges.items ≡ [] }
    {
        Overlaps {
            ranges: Vec::new(alloc),
            latest: BTreeMap::new(alloc),
            words: BTreeMap::new(alloc),
            text_offsets: BTreeMap::new(alloc),
            repeats: BTreeMap::new(alloc),
        }
    }

    /// The word of a remembered text that equals the text of `word`, if a range proves that they
    /// are equal.
    pub(crate) fn equal_word(&self, adb: Adb<'_>, word: Val) -> Option<u32>
        // Each remembered range of the payload has its period.
        requires { All (HasPeriod (payload_of adb)) self.now.ranges.items }
        // The text of the returned word equals the text of `word`.
        ensures { IfSome result (λ kept. text_in (value_at (payload_of adb.entry) Kinds.Text kept)
            ≡ text_in (value_at (payload_of adb.entry) Kinds.Text word)) }
    {
        let text = text_place(adb, word)?;
        let index = self.index_around(text)?;
        let range = *self.ranges.get(index)?;
        let kept = *self.words.get(&(index, range.phase_of(text)?))?;
        // The word `kept` is a guess: only if the range proves it are the texts equal.
        let same = range.shows_equal(text_place(adb, Val::of(kept))?, text);
        if same { Some(kept) } else { None }
    }

    /// Whether the text of `word` equals a remembered text, that of `kept`. The remembered text has
    /// the word `known` in the draft. If a range proves that the texts are equal, no byte is read.
    pub(crate) fn find_equal(
        &mut self,
        adb: Adb<'_>,
        kept: Val,
        known: Val,
        word: Val,
    ) -> Result<bool, AllocError>
        // Each remembered range of the payload has its period.
        requires { All (HasPeriod (payload_of adb)) self.old.ranges.items }
        // Each remembered range of the payload has its period.
        ensures ranges { OnOk result
            (All (HasPeriod (payload_of adb.entry)) self.new.ranges.items) }
        // On `Ok(true)`, the texts of `kept` and of `word` are equal.
        ensures equal { IfOk result (λ same. OnTrue same
            (text_in (value_at (payload_of adb.entry) Kinds.Text kept)
            ≡ text_in (value_at (payload_of adb.entry) Kinds.Text word))) }
    {
        let (Some(first), Some(second)) = (text_place(adb, kept), text_place(adb, word)) else {
            return Ok(false);
        };
        if self.shows_equal(first, second) {
            return Ok(true);
        }
        // Otherwise read the bytes of both texts, and remember their range if they are equal.
        let Some(range) = self.keep_repeat(adb, first, second)? else {
            return Ok(false);
        };
        self.keep(adb, word, known)?;
        Ok(range.shows_equal(first, second))
    }

    /// Whether a remembered range proves that two texts are equal: the last range that was found
    /// with two texts of the same relative places.
    fn shows_equal(&self, first: TextPlace, second: TextPlace) -> bool
        // On true, the texts are equal in each payload in which the remembered ranges have their
        // periods.
        ensures { (payload : List ℕ) → All (HasPeriod payload) self.now.ranges.items
            → OnTrue result (take first.len (drop first.from payload)
            ≡ take second.len (drop second.from payload)) }
    {
        match self.repeat_of(first, second) {
            Some(range) => range.shows_equal(first, second),
            None => false,
        }
    }

    /// The last range that was found with two texts of the same relative places, if there is one.
    fn repeat_of(&self, first: TextPlace, second: TextPlace) -> Option<PeriodicRange>
        // The result is one of the remembered ranges, so it has its period if all of them do.
        ensures { (payload : List ℕ) → All (HasPeriod payload) self.now.ranges.items
            → IfSome result (HasPeriod payload) }
    {
        let place = repeat_place(first, second);
        self.ranges.get(*self.repeats.get(&place)?).copied()
    }

    /// Remembers the range that contains two texts, if its bytes have the distance between the
    /// texts as a period. Then the texts are equal if they have one length.
    fn keep_repeat(
        &mut self,
        adb: Adb<'_>,
        first: TextPlace,
        second: TextPlace,
    ) -> Result<Option<PeriodicRange>, AllocError>
        // The first text is within the payload.
        requires first { first.from + first.len ≤ length (payload_of adb) }
        // The second text is within the payload.
        requires second { second.from + second.len ≤ length (payload_of adb) }
        // Each remembered range of the payload has its period.
        requires ranges { All (HasPeriod (payload_of adb)) self.old.ranges.items }
        // Each remembered range of the payload has its period.
        ensures ranges { OnOk result
            (All (HasPeriod (payload_of adb.entry)) self.new.ranges.items) }
        // The range that is returned, if any, has its period.
        ensures range { IfOk result
            (λ range. IfSome range (HasPeriod (payload_of adb.entry))) }
    {
        let distance = first.from.abs_diff(second.from);
        let len = first.len.min(second.len);
        // The bytes from the beginning of the earlier text to the end of the later one, if both
        // have the shorter length.
        let both = TextPlace {
            from: first.from.min(second.from),
            len: distance + len,
        };
        let Some(range) = periodic_range(adb.payload(), both, distance, len / PART) else {
            return Ok(None);
        };
        let place = repeat_place(first, second);
        self.repeats.insert(place, self.ranges.len())?;
        self.ranges.push(range)?;
        Ok(Some(range))
    }

    /// Remembers a text that was not known: `word` is its word in the payload, and `known` its word
    /// in the draft. `known` is NULL if the draft passed a limit; then nothing is remembered.
    pub(crate) fn keep(&mut self, adb: Adb<'_>, word: Val, known: Val) -> Result<(), AllocError>
        // Each remembered range of the payload has its period.
        requires { All (HasPeriod (payload_of adb)) self.old.ranges.items }
        // Each remembered range of the payload still has its period.
        ensures { OnOk result (All (HasPeriod (payload_of adb.entry)) self.new.ranges.items) }
    {
        let Some(text) = text_place(adb, word) else {
            return Ok(());
        };
        if known.is_null() {
            return Ok(());
        }
        // Two equal texts of one stretch have the distance between them as a period.
        let place = (known.word(), text.stretch());
        // The last text in this stretch with the same word in the draft is equal to this text.
        if let Some(from) = self.text_offsets.insert(place, text.from)? {
            self.keep_range(adb, text, text.from.abs_diff(from))?;
        }
        self.keep_word(text, word)
    }

    /// Remembers the range around `text` that has a period. An equal text begins at the distance
    /// `distance` from `text`. If the distance is a multiple of the period of the range that is
    /// already known around `text`, nothing is remembered.
    fn keep_range(
        &mut self,
        adb: Adb<'_>,
        text: TextPlace,
        distance: usize,
    ) -> Result<(), AllocError>
        // The text is within the payload.
        requires within { text.from + text.len ≤ length (payload_of adb) }
        // Each remembered range of the payload has its period.
        requires ranges { All (HasPeriod (payload_of adb)) self.old.ranges.items }
        // Each remembered range of the payload still has its period.
        ensures { OnOk result (All (HasPeriod (payload_of adb.entry)) self.new.ranges.items) }
    {
        if self.is_some_periods(text, distance) {
            return Ok(());
        }
        // Bytes with two periods mostly have the greatest common divisor of these as a period too.
        // Whether they have it is tested below.
        let period = match self.range_around(text) {
            Some(range) => common_divisor(range.period, distance),
            None => distance,
        };
        let Some(range) = periodic_range(adb.payload(), text, period, text.len / PART) else {
            return Ok(());
        };
        self.latest
            .insert((text.len, text.stretch()), self.ranges.len())?;
        self.ranges.push(range)?;
        Ok(())
    }

    /// Whether `distance` is a multiple of the period of the range that is known around `text`.
    fn is_some_periods(&self, text: TextPlace, distance: usize) -> bool {
        match self.range_around(text) {
            Some(range) => {
                range.phase_of(text).is_some() && distance.checked_rem(range.period) == Some(0)
            }
            None => false,
        }
    }

    /// Remembers the word of a text under its phase, if a range around the text is known.
    fn keep_word(&mut self, text: TextPlace, word: Val) -> Result<(), AllocError>
        // No range is added or removed.
        ensures { self.new.ranges.items ≡ self.old.ranges.items }
    {
        let (Some(index), Some(range)) = (self.index_around(text), self.range_around(text)) else {
            return Ok(());
        };
        if let Some(phase) = range.phase_of(text) {
            self.words.insert((index, phase), word.word())?;
        }
        Ok(())
    }

    /// The range that was found last around a text with the length and the stretch of `text`, if
    /// there is one.
    fn range_around(&self, text: TextPlace) -> Option<PeriodicRange> {
        self.ranges.get(self.index_around(text)?).copied()
    }

    /// The index in `ranges` of the range that `range_around` returns.
    fn index_around(&self, text: TextPlace) -> Option<usize> {
        self.latest.get(&(text.len, text.stretch())).copied()
    }
}

/// The relative places of two texts: the distance between them, the length of the shorter one, and
/// the stretch in which the earlier one begins.
fn repeat_place(first: TextPlace, second: TextPlace) -> (usize, usize, usize) {
    // The offset of the earlier text, with the length of the shorter one.
    let front = TextPlace {
        from: first.from.min(second.from),
        len: first.len.min(second.len),
    };
    let distance = first.from.abs_diff(second.from);
    (distance, front.len, front.stretch())
}

/// The place in the payload of the text of `word`; None if the word has no bytes at an offset.
pub(crate) fn text_place(adb: Adb<'_>, word: Val) -> Option<TextPlace>
    // The bytes at this place are the text of the word.
    ensures text { IfSome result (λ text. text_in (value_at (payload_of adb.entry) Kinds.Text word)
        ≡ take text.len (drop text.from (payload_of adb.entry))) }
    // This place is within the payload.
    ensures within { IfSome result (λ text. text.from + text.len ≤ length (payload_of adb.entry)) }
{
    match adb.blob_range(word) {
        Ok((from, end)) => Some(TextPlace {
            from,
            len: end - from,
        }),
        Err(_) => None,
    }
}

/// The range around `text` whose bytes have the period `period`. The range begins at most `reach`
/// bytes before the text, and ends at most `reach` bytes after the text. None if the bytes of the
/// text do not have this period, or if the period is 0 or longer than the text.
fn periodic_range(
    bytes: &[u8],
    text: TextPlace,
    period: usize,
    reach: usize,
) -> Option<PeriodicRange>
    // The text is within the payload.
    requires { text.from + text.len ≤ length bytes.now }
    // The range that is returned, if any, has its period.
    ensures { IfSome result (HasPeriod bytes.now) }
{
    if period == 0 || period > text.len {
        return None;
    }
    let from = first_in_period(bytes, text, period, reach);
    let end = end_of_period(bytes, text, period, reach);
    if bytes[from + period..end] != bytes[from..end - period] {
        return None;
    }
    Some(PeriodicRange { from, end, period })
}

/// The offset of the first of the bytes before `text` that continue its period, at most `reach`
/// bytes before the text.
fn first_in_period(bytes: &[u8], text: TextPlace, period: usize, reach: usize) -> usize
    // The text is within the payload.
    requires within { text.from + text.len ≤ length bytes.now }
    // The period is not longer than the text.
    requires period { period ≤ text.len }
    // The offset is at most that of the text.
    ensures { result ≤ text.from }
{
    let least = text.from.saturating_sub(reach);
    let from = first_by_steps(bytes, text.from, least, period, STEP);
    first_by_steps(bytes, from, least, period, 1)
}

/// The offset of the first of the bytes before `start` that continue the period, but not before
/// the offset `least`. `step` bytes are compared at a time.
fn first_by_steps(bytes: &[u8], start: usize, least: usize, period: usize, step: usize) -> usize
    // The bytes from `start` on have a whole period.
    requires within { start + period ≤ length bytes.now }
    // A step of 0 bytes would never end.
    requires some { 0 < step }
    // The offset is at most `start`.
    ensures { result ≤ start }
{
    let mut from = start;
    while from >= step
        && from - step >= least
        && bytes[from - step..from] == bytes[from - step + period..from + period]
    {
        from -= step;
    }
    from
}

/// The end of the bytes after `text` that continue its period, at most `reach` bytes after the
/// text.
fn end_of_period(bytes: &[u8], text: TextPlace, period: usize, reach: usize) -> usize
    // The text is within the payload.
    requires within { text.from + text.len ≤ length bytes.now }
    // The period is not longer than the text.
    requires period { period ≤ text.len }
    // The end is not before the end of the text.
    ensures behind { text.from + text.len ≤ result }
    // The end is within the bytes.
    ensures within { result ≤ length bytes.now }
{
    let start = text.from + text.len;
    let most = bytes.len().min(start.saturating_add(reach));
    let end = end_by_steps(bytes, start, most, period, STEP);
    end_by_steps(bytes, end, most, period, 1)
}

/// The end of the bytes from `start` on that continue the period, but not after the offset `most`.
/// `step` bytes are compared at a time.
fn end_by_steps(bytes: &[u8], start: usize, most: usize, period: usize, step: usize) -> usize
    // A whole period precedes `start`.
    requires period { period ≤ start }
    // The offset `start` is within the bytes.
    requires start { start ≤ length bytes.now }
    // The offset `most` is within the bytes.
    requires most { most ≤ length bytes.now }
    // A step of 0 bytes would never end.
    requires some { 0 < step }
    // The end is not before `start`.
    ensures behind { start ≤ result }
    // The end is within the bytes.
    ensures within { result ≤ length bytes.now }
{
    let mut end = start;
    while end <= most
        && most - end >= step
        && bytes[end..end + step] == bytes[end - period..end - period + step]
    {
        end += step;
    }
    end
}

/// The greatest number that divides both arguments, by Euclid's algorithm.
fn common_divisor(left: usize, right: usize) -> usize {
    let mut divided = left;
    let mut divisor = right;
    while divisor > 0 {
        let rest = divided % divisor;
        divided = divisor;
        divisor = rest;
    }
    divided
}
