//! The long texts of a payload that the draft already contains. Many places may share a text. So a
//! long one is compared with the draft once, and then written by its word. Equal texts that overlap
//! are found by their period, others by their fingerprints. That a blob is stored once is the rule
//! of `docs/formats.md`, "Canonical layout". How often a text is read is this crate's own choice,
//! as its README says.

ghost use Rattle.std.specs.Prelude.{◌≡◌, ℕ, List, true, Some, All, IfOk, IfSome, OnOk};
ghost use Rattle.adb_view.specs.Adb.{payload_of};
ghost use Rattle.adb_view.specs.Plain.{blob_or_null};
ghost use Rattle.adb_view.specs.Values.{entry_at_index, is_sound, kind_at, text_in, value_at};
ghost use Rattle.adb_view.specs.declared.tables.Kind.TheVariants as Kinds;
ghost use Rattle.adb_values.specs.Drafts.{DraftState, draft_with};

use crate::fingerprints::Fingerprints;
use crate::overlaps::Overlaps;
use adb_fields::{field_word, text_word};
use adb_values::Draft;
use adb_view::{Adb, Val, Which};
use std::alloc::{AllocError, Global};
use std::collections::BTreeMap;

/// The most bytes of a short text. A short text is not remembered: it is compared with the draft
/// wherever it occurs. Any number is correct. A greater one takes more time, a smaller one more
/// memory.
const SHORT: usize = 64;

/// The long texts (more than `SHORT` bytes) of one payload that one draft contains.
pub struct KnownTexts {
    /// Maps the word of a long text in the payload to the word of this text in the draft.
    words: BTreeMap<u32, u32>,
    /// The ranges of the payload that have a period, by which equal texts that overlap are found.
    overlaps: Overlaps,
    /// The fingerprints of remembered texts, by which other equal texts are found.
    fingerprints: Fingerprints,
}

/// Drops the parts in one call, so that a function that gives up has one drop and not many.
impl Drop for KnownTexts {
    fn drop(self) {
        let KnownTexts {
            words: _,
            overlaps: _,
            fingerprints: _,
        } = self;
    }
}

impl KnownTexts {
    ghost use Rattle.adb_copy.specs.Known.{AreRememberedBlobsOfDraft, HasPeriod, IsRememberedTextWord};

    /// The object at the beginning, when no text is remembered.
    pub fn new(alloc: Global) -> KnownTexts
        // Each remembered text, of which there are none, is a blob of any draft.
        ensures { (payload : List ℕ) (draft : DraftState)
            → AreRememberedBlobsOfDraft payload draft result }
    {
        KnownTexts {
            words: BTreeMap::new(alloc),
            overlaps: Overlaps::new(alloc),
            fingerprints: Fingerprints::new(alloc),
        }
    }

    /// Writes the text of the word `word` in the payload `adb` to the draft. Only long texts take
    /// memory, each once.
    pub(crate) fn write(
        &mut self,
        draft: &mut Draft,
        adb: Adb<'_>,
        word: Val,
    ) -> Result<(), AllocError>
        // The word `word` has a plain value: a text.
        requires sound { is_sound (payload_of adb) Kinds.Text word ≡ true }
        // Each text that `self` remembers is a blob of the draft, with the remembered word.
        // Each remembered range has its period.
        requires known { AreRememberedBlobsOfDraft (payload_of adb) draft.old self.old }
        // On Ok, the draft gets the text, or NULL if it is empty.
        ensures text { OnOk result (draft.new ≡ draft_with
            (blob_or_null (text_in (value_at (payload_of adb.entry) Kinds.Text word))) draft.old) }
        // On Ok, each text that `self` remembers is a blob of the new draft, with that word. Each
        // remembered range has its period.
        ensures known { OnOk result (AreRememberedBlobsOfDraft
            (payload_of adb.entry) draft.new self.new) }
    {
        let text = text_word(adb, word);
        if text.len() <= SHORT {
            return draft.blob(text);
        }
        match self.known_word(adb, word) {
            Some(known) => draft.blob_again(Val::of(known)),
            None => self.write_unknown(draft, adb, word),
        }
    }

    /// Writes the text of a field to the draft. The field has the index `field`, counted from 0, in
    /// the object with the word `object`, which is read by the table `which`.
    pub fn write_field(
        &mut self,
        draft: &mut Draft,
        adb: Adb<'_>,
        which: Which,
        object: Val,
        field: usize,
    ) -> Result<(), AllocError>
        // The word `object` has a plain value: an object of the table `which`.
        requires sound { is_sound (payload_of adb) (Kinds.Obj which) object ≡ true }
        // By its table, the field is a text.
        requires kind { kind_at which field ≡ Some Kinds.Text }
        // Each text that `self` remembers is a blob of the draft, with the remembered word.
        // Each remembered range has its period.
        requires known { AreRememberedBlobsOfDraft (payload_of adb) draft.old self.old }
        // On Ok, the draft gets the text of the field, or NULL if it is empty.
        ensures text { OnOk result (draft.new ≡ draft_with (blob_or_null (text_in (entry_at_index
            (value_at (payload_of adb.entry) (Kinds.Obj which) object) field))) draft.old) }
        // On Ok, each text that `self` remembers is a blob of the new draft, with that word. Each
        // remembered range has its period.
        ensures known { OnOk result (AreRememberedBlobsOfDraft
            (payload_of adb.entry) draft.new self.new) }
    {
        self.write(draft, adb, field_word(adb, which, object, field))
    }

    /// The word that the text of `word` has in the draft, if it is known. It is known if `word` is
    /// remembered, or if another word is whose text is proved equal by a remembered range.
    fn known_word(&self, adb: Adb<'_>, word: Val) -> Option<u32>
        // Each remembered range of the payload has its period.
        requires { All (HasPeriod (payload_of adb)) self.now.overlaps.ranges.items }
        // The result, if any, is remembered for a text that equals the text of `word`.
        ensures { IfSome result (IsRememberedTextWord (payload_of adb.entry) self.now.words word) }
    {
        match self.words.get(&word.word()) {
            Some(known) => Some(*known),
            None => self
                .words
                .get(&self.overlaps.equal_word(adb, word)?)
                .copied(),
        }
    }

    /// The word in the draft of a remembered text that equals the text of `word`, if a text with
    /// the same fingerprint is remembered and equal.
    fn word_of_equal(&mut self, adb: Adb<'_>, word: Val) -> Result<Option<u32>, AllocError>
        // Each remembered range of the payload has its period.
        requires { All (HasPeriod (payload_of adb)) self.old.overlaps.ranges.items }
        // The remembered words of texts are the same as before.
        ensures words { self.new.words ≡ self.old.words }
        // Each remembered range of the payload has its period.
        ensures ranges { OnOk result
            (All (HasPeriod (payload_of adb.entry)) self.new.overlaps.ranges.items) }
        // The word that is returned, if any, is remembered for a text that equals the text of
        // `word`.
        ensures known { IfOk result (λ known. IfSome known
            (IsRememberedTextWord (payload_of adb.entry) self.old.words word)) }
    {
        let Some(kept) = self.fingerprints.likely_equal(adb, word) else {
            return Ok(None);
        };
        let Some(known) = self.words.get(&kept).copied() else {
            return Ok(None);
        };
        let same = self
            .overlaps
            .find_equal(adb, Val::of(kept), Val::of(known), word)?;
        Ok(if same { Some(known) } else { None })
    }

    /// Writes the text of `word`, which `known_word` does not find. The word that the text has in
    /// the draft is remembered.
    fn write_unknown(
        &mut self,
        draft: &mut Draft,
        adb: Adb<'_>,
        word: Val,
    ) -> Result<(), AllocError>
        // The word `word` has a plain value: a text.
        requires sound { is_sound (payload_of adb) Kinds.Text word ≡ true }
        // Each text that `self` remembers is a blob of the draft, with the remembered word.
        // Each remembered range has its period.
        requires known { AreRememberedBlobsOfDraft (payload_of adb) draft.old self.old }
        // On Ok, the draft gets the text, or NULL if it is empty.
        ensures text { OnOk result (draft.new ≡ draft_with
            (blob_or_null (text_in (value_at (payload_of adb.entry) Kinds.Text word))) draft.old) }
        // On Ok, each text that `self` remembers is a blob of the new draft, with that word. Each
        // remembered range has its period.
        ensures known { OnOk result (AreRememberedBlobsOfDraft
            (payload_of adb.entry) draft.new self.new) }
    {
        match self.word_of_equal(adb, word)? {
            Some(known) => {
                self.words.insert(word.word(), known)?;
                draft.blob_again(Val::of(known))
            }
            None => self.write_new(draft, adb, word),
        }
    }

    /// Writes the text of `word`, for which no equal remembered text was found. The word that the
    /// text has in the draft is remembered.
    fn write_new(&mut self, draft: &mut Draft, adb: Adb<'_>, word: Val) -> Result<(), AllocError>
        // The word `word` has a plain value: a text.
        requires sound { is_sound (payload_of adb) Kinds.Text word ≡ true }
        // Each text that `self` remembers is a blob of the draft, with the remembered word.
        // Each remembered range has its period.
        requires known { AreRememberedBlobsOfDraft (payload_of adb) draft.old self.old }
        // On Ok, the draft gets the text, or NULL if it is empty.
        ensures text { OnOk result (draft.new ≡ draft_with
            (blob_or_null (text_in (value_at (payload_of adb.entry) Kinds.Text word))) draft.old) }
        // On Ok, each text that `self` remembers is a blob of the new draft, with that word. Each
        // remembered range has its period.
        ensures known { OnOk result (AreRememberedBlobsOfDraft
            (payload_of adb.entry) draft.new self.new) }
    {
        let known = draft.blob_word(text_word(adb, word))?;
        self.words.insert(word.word(), known.word())?;
        self.fingerprints.note(adb, word)?;
        self.overlaps.keep(adb, word, known)
    }
}
