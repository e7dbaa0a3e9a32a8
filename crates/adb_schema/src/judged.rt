//! The rules that read each byte of a text, and the long texts of a payload that are known to obey
//! such a rule. Many fields may share a text, so a long text is judged once (`Judged::keeps` in the
//! README of this crate). The rules are in the table of `docs/formats.md`, "The texts".

ghost use Rattle.std.specs.Prelude.{◌≡◌, All, IfOk};
ghost use Rattle.std.specs.Bool.{OnTrue};
ghost use Rattle.version_core.specs.Order.{is_version};
ghost use Rattle.dep_core.specs.Value.{is_version_or_empty};
ghost use Rattle.adb_view.specs.Adb.{payload_of};
ghost use Rattle.adb_schema.specs.TextRules.{KeepsTextRule, keeps_text_rule, text_at};

use crate::rules::{
    is_folder_name, is_link_target_or_none, is_one_part, is_version, is_version_or_empty,
};
use adb_view::{Adb, Val};
use base_core::is_name;
use dep_core::{is_dependency_name_by_bytes_and_length, is_package_name};
use std::alloc::{AllocError, Global};
use std::collections::BTreeSet;
use version_core::OverlappingVersions;

/// The most bytes of a text whose verdict is not remembered. Such a text is judged wherever it
/// occurs, which allocates no memory. The number does not change the results.
const LONGEST_SHORT_TEXT: usize = 64;

/// A rule that reads only the bytes of a text; each is named for what the text must be.
#[derive(Clone, Copy, PartialEq, Eq, PartialOrd, Ord)]
pub enum TextRule {
    /// A dependency's name (field 101).
    DependencyName,
    /// A package's name (301).
    PackageName,
    /// A version (302).
    Version,
    /// Empty, or a version (102).
    VersionOrEmpty,
    /// A path below the root (1001, 1002).
    Name,
    /// Empty, or a path (501).
    FolderName,
    /// One part of a path (401).
    OnePart,
    /// Empty, or a link's target (406).
    Target,
}

impl TextRule {
    /// Whether a text obeys this rule.
    fn is_kept_by(self, text: &[u8]) -> bool
        ensures { result ≡ keeps_text_rule self text.now }
    {
        match self {
            TextRule::DependencyName => is_dependency_name_by_bytes_and_length(text),
            TextRule::PackageName => is_package_name(text),
            TextRule::Version => is_version(text),
            TextRule::VersionOrEmpty => is_version_or_empty(text),
            TextRule::Name => is_name(text),
            TextRule::FolderName => is_folder_name(text),
            TextRule::OnePart => is_one_part(text),
            TextRule::Target => is_link_target_or_none(text),
        }
    }
}

/// A payload, and the words of its long texts that are known to obey a rule, each with the rule.
#[derive(Drop)]
pub struct Judged<'a> {
    /// The opened payload.
    adb: Adb<'a>,
    /// Each rule with the words of the long texts that obey it.
    good: BTreeSet<(TextRule, u32)>,
    /// The bytes of the payload, and leaps by which judging a version skips bytes that an earlier
    /// version has passed.
    versions: OverlappingVersions<'a>,
    // Each remembered text obeys the rule with which it is remembered.
    ghost kept: { All (KeepsTextRule (payload_of adb)) good.keys },
    // The versions are judged in this payload.
    ghost same: { versions ≡ payload_of adb },
}

impl<'a> Judged<'a> {
    /// A payload, before any text was judged.
    pub fn new(alloc: Global, adb: Adb<'a>) -> Judged<'a>
        ensures { result.adb ≡ adb.entry }
    {
        Judged {
            adb,
            good: BTreeSet::new(alloc),
            versions: OverlappingVersions::new(alloc, adb.payload()),
        }
    }

    /// The opened payload whose texts are judged.
    pub fn adb(&self) -> Adb<'a>
        ensures { result ≡ self.now.adb }
    {
        self.adb
    }

    /// Whether the text of a word obeys a rule. Only long texts need memory, each once for each
    /// rule that it obeys. The payload is unchanged, so the verdicts on its words stay true.
    pub fn keeps(&mut self, rule: TextRule, word: Val, text: &[u8]) -> Result<bool, AllocError>
        // These bytes are the text of the word.
        requires { text.now ≡ text_at (payload_of self.old.adb) word }
        // On Ok, the result says whether the text obeys the rule.
        ensures value { IfOk result (λ kept. kept ≡ keeps_text_rule rule text.now) }
        // The payload of `self` is unchanged.
        ensures payload { self.new.adb ≡ self.old.adb }
    {
        // A short text is judged wherever it occurs.
        if text.len() <= LONGEST_SHORT_TEXT {
            return Ok(rule.is_kept_by(text));
        }
        // A long text that was found to obey the rule before is not read again.
        if self.is_good(rule, word) {
            return Ok(true);
        }
        if !self.long_text_keeps(rule, word, text)? {
            return Ok(false);
        }
        self.good.insert((rule, word.word()))?;
        Ok(true)
    }

    /// Whether the text of a word is known to obey a rule.
    fn is_good(&self, rule: TextRule, word: Val) -> bool
        ensures { OnTrue result (KeepsTextRule (payload_of self.now.adb) (rule, word)) }
    {
        self.good.contains(&(rule, word.word()))
    }

    /// Whether a long text, which is the text of a word, obeys a rule; the text is read here. A
    /// version has no limit of length, and many may overlap, so bytes that they share are read
    /// once.
    fn long_text_keeps(
        &mut self,
        rule: TextRule,
        word: Val,
        text: &[u8],
    ) -> Result<bool, AllocError>
        // These bytes are the text of the word.
        requires { text.now ≡ text_at (payload_of self.old.adb) word }
        // On Ok, the result says whether the text obeys the rule.
        ensures value { IfOk result (λ kept. kept ≡ keeps_text_rule rule text.now) }
        // The payload of `self` is unchanged.
        ensures payload { self.new.adb ≡ self.old.adb }
    {
        match rule {
            TextRule::Version => self.is_version(word, text),
            TextRule::VersionOrEmpty => self.is_version_or_empty(word, text),
            _ => Ok(rule.is_kept_by(text)),
        }
    }

    /// Whether the text of a word is empty or a version.
    fn is_version_or_empty(&mut self, word: Val, text: &[u8]) -> Result<bool, AllocError>
        // These bytes are the text of the word.
        requires { text.now ≡ text_at (payload_of self.old.adb) word }
        // On Ok, the result says whether the text is a valid version or empty.
        ensures value { IfOk result (λ is. is ≡ is_version_or_empty text.now) }
        // The payload of `self` is unchanged.
        ensures payload { self.new.adb ≡ self.old.adb }
    {
        if text.is_empty() {
            return Ok(true);
        }
        self.is_version(word, text)
    }

    /// Whether the text of a word is a version.
    fn is_version(&mut self, word: Val, text: &[u8]) -> Result<bool, AllocError>
        // These bytes are the text of the word.
        requires { text.now ≡ text_at (payload_of self.old.adb) word }
        // On Ok, the result says whether the text is a valid version.
        ensures value { IfOk result (λ is. is ≡ is_version text.now) }
        // The payload of `self` is unchanged.
        ensures payload { self.new.adb ≡ self.old.adb }
    {
        // A version is judged by where it is in the payload; a word without a blob has no such
        // range.
        match self.adb.blob_range(word) {
            Ok((from, end)) => self.versions.is_version(from, end),
            Err(_) => Ok(is_version(text)),
        }
    }
}
