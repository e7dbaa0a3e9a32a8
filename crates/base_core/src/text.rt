//! Byte texts, and the words of a command line. `docs/commands.md` says how many words a command
//! line may have ("Answers and statuses", status 5) and how they are read ("Words"). In the clauses
//! `ok` and `err` say what a push makes of the list, `small` that places fit in 32 bits.
ghost use Rattle.std.specs.Prelude.{◌≡◌, ◌<◌, [], ◌∷◌, ◌++◌, length, IfOk, OnOk, OnErr, slice_get, Some, ◌==◌};

use std::alloc::{AllocError, Global};
use std::marker::Model;

/// Owned bytes of any values, such as a word, an option or a line.
#[derive(Drop)]
pub struct Text {
    /// The bytes of the text, in memory of its own.
    bytes: Vec<u8>,
}

impl Model for Text {
    ghost use Rattle.std.specs.Prelude.{ℕ, List};

    ghost Value = { List ℕ };

    // Contracts see a text as the list of its bytes.
    ghost view = { λ text. text.bytes.items };
}

impl Text {
    /// A copy of the bytes.
    pub fn of(alloc: Global, bytes: &[u8]) -> Result<Text, AllocError>
        ensures { IfOk result (λ text. text ≡ bytes.now) }
    {
        let bytes = Vec::from_slice(alloc, bytes)?;
        Ok(Text { bytes })
    }

    /// The bytes as a text, without a copy.
    pub fn from_vec(bytes: Vec<u8>) -> Text
        ensures { result ≡ bytes.items }
    {
        Text { bytes }
    }

    /// The bytes of the text.
    pub fn as_bytes(&self) -> &[u8]
        ensures { result.now ≡ self.now }
    {
        &self.bytes
    }
}

/// The words of a command line, without the program's name. There are at most 4,294,967,294, so
/// that places, counted from 1, and the place after the last one are u32 numbers.
#[derive(Drop)]
pub struct Words {
    /// The allocator for further texts.
    alloc: Global,
    /// The texts, in the order in which they were added.
    words: Vec<Text>,
}

impl Model for Words {
    ghost use Rattle.std.specs.Prelude.{ℕ, List, length, ◌<◌};

    ghost Value = { List (List ℕ) };

    // Contracts see the list of the words, each as its bytes.
    ghost view = { λ words. words.words.items };

    // There are at most 4,294,967,294 words.
    ghost invariant = { λ words. length words.words.items < 4294967295 };
}

impl Words {
    /// A command line without words.
    pub fn new(alloc: Global) -> Words
        ensures { result ≡ [] }
    {
        Words {
            alloc,
            words: Vec::new(alloc),
        }
    }

    /// Adds a copy of the word at the end. If out of memory, nothing changes.
    pub fn push(&mut self, word: &[u8]) -> Result<(), AllocError>
        // There is room for one more word, as the invariant limits their number.
        requires { length self.old < 4294967294 }
        // On Ok, the word is added at the end.
        ensures ok { OnOk result (self.new ≡ self.old ++ word.now ∷ []) }
        // An error leaves the words unchanged.
        ensures err { OnErr result (self.new ≡ self.old) }
    {
        let text = Text::of(self.alloc, word)?;
        self.words.push(text)?;
        Ok(())
    }

    /// How many words there are.
    pub fn len(&self) -> usize
        // The result is the number of words.
        ensures value { result ≡ length self.now }
        // The place after the last word, counted from 1, fits in 32 bits.
        ensures small { result < 4294967295 }
    {
        self.words.len()
    }

    /// Whether there is no word.
    pub fn is_empty(&self) -> bool
        ensures { result ≡ (length self.now == 0) }
    {
        self.words.is_empty()
    }

    /// The word at an index, counted from 0 (the places in usage errors count from 1).
    pub fn word(&self, i: usize) -> &[u8]
        // The index is that of an element.
        requires { i < length self.now }
        ensures { slice_get self.now i ≡ Some result.now }
    {
        self.words[i].as_bytes()
    }
}
