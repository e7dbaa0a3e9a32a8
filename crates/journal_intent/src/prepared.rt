//! `PreparedIntent`, an intent with all the memory that its actions need; the type `Stage` of
//! `journal_core` uses it. The rules are in `docs/crash-safety.md`, "A change of several files":
//! memory is allocated when a stage begins, and never later.
ghost use Rattle.std.specs.Prelude.{◌≡◌, ◌++◌, ◌≤◌, ◌<◌, ◌+◌, ◌^◌, ℕ, List, Some, None, length, slice_get, IfOk, IfErr, OnOk, IsErrOf};
ghost use Rattle.adb_sound.specs.adb_schema.ReadFaults.{IsReadFault};
ghost use Rattle.adb_sound.specs.adb_schema.Soundness.{container_fault_except_contents};
ghost use Rattle.adb_view.specs.declared.tables.Which.TheVariants.{Intent as IntentTable};
ghost use Rattle.adb_sound.specs.adb_write.Canonical.{counts_at_first_overflow};
ghost use Rattle.journal_intent.specs.FreeNames.{HasFreeNamesAndUnrepeatedWrites, stage_names_from};
ghost use Rattle.journal_intent.specs.Intent.{AreDistinctNamesAllowedInIntent, intent_name, read_intent, stage_name};
ghost use Rattle.journal_intent.specs.IntentValue.{intent_of_lists, value_of_intent};

use crate::container::intent_file;
use crate::lists::{IntentLists, read_lists};
use crate::names::{a_read_intent_has_free_names, intent_name, stage_names};
use adb_schema::ReadFault;
use adb_write::WriteFault;
use base_core::{Name, Names};
use std::alloc::{AllocError, Global};
use std::marker::Model;

/// An intent with all the memory that its actions need: its lists, its container, and the names of
/// the staged files.
pub struct PreparedIntent {
    /// The names to be removed.
    removals: Names,
    /// The names to be written. The write with the index i has the staged file with the number i +
    /// 1.
    writes: Names,
    /// The names of the staged files, from number 0 on. Number 0 is the intent's own file before it
    /// is published.
    stage_names: Names,
    /// The name of the intent.
    name: Name,
    /// The container that encodes the intent.
    file: Vec<u8>,
    // The list of staged names has one name for the intent, and one for each write.
    ghost waiting: { stage_names ≡ stage_names_from 0 (length writes + 1) },
    // The name is `lib/apk/intent`.
    ghost named: { name ≡ intent_name },
    // The file is read as the intent of the two lists.
    ghost spelled: { read_intent file.items ≡ Some (intent_of_lists removals writes) },
    // The names can be counted in 64 bits.
    ghost few: { length removals + length writes < 2 ^ 63 },
}

/// Drops the parts in one call, so that a function that gives up has one drop and not many.
impl Drop for PreparedIntent {
    fn drop(self) {
        let PreparedIntent {
            removals: _,
            writes: _,
            stage_names: _,
            name: _,
            file: _,
        } = self;
    }
}

impl Model for PreparedIntent {
    ghost use Rattle.journal_intent.specs.Intent.{Intent};

    // Contracts see a prepared intent as an intent: its two lists.
    ghost Value = { Intent };

    ghost view = { λ s. record { removals = s.removals; writes = s.writes } };
}

impl PreparedIntent {
    /// The prepared intent of these removals and writes.
    ///
    /// # Errors
    ///
    /// `TooLarge` exactly if the payload of the intent's container exceeds a limit of the writer,
    /// with the counts at which it does; or `Memory`.
    pub fn of_names(
        alloc: Global,
        removals: Names,
        writes: Names,
    ) -> Result<PreparedIntent, WriteFault>
        // The names are allowed in an intent, and none is repeated.
        requires { AreDistinctNamesAllowedInIntent (removals ++ writes) }
        // On Ok, the intent has these lists.
        ensures intent { IfOk result (λ intent. intent ≡ intent_of_lists removals writes) }
        // The error for a payload that is too large has the counts at which a limit is exceeded.
        ensures large { (bytes values : ℕ) → IsErrOf result (WriteFault.TooLarge bytes values)
            → counts_at_first_overflow (value_of_intent (intent_of_lists removals writes))
            ≡ Some (bytes, values) }
        // Ok is returned only if the payload exceeds no limit.
        ensures fits { OnOk result
            (counts_at_first_overflow (value_of_intent (intent_of_lists removals writes)) ≡ None) }
    {
        let file = intent_file(alloc, &removals, &writes)?;
        let lists = IntentLists { removals, writes };
        let intent = PreparedIntent::of_lists(alloc, lists, file)?;
        Ok(intent)
    }

    /// The prepared intent that this file encodes.
    ///
    /// # Errors
    ///
    /// `Bad` exactly if the file is no intent container, with the first test that failed; or
    /// `Memory`.
    pub fn of_file(alloc: Global, file: Vec<u8>) -> Result<PreparedIntent, ReadFault>
        // On Ok, the file is read as this intent.
        ensures intent { IfOk result (λ intent. read_intent file.items ≡ Some intent) }
        // An error reports the first failed test of the container, or a lack of memory.
        ensures bad { IfErr result
            (λ fault. IsReadFault fault (container_fault_except_contents IntentTable file.items)) }
        // Ok is returned only if the container passes all tests.
        ensures good { OnOk result (container_fault_except_contents IntentTable file.items ≡ None) }
    {
        let lists = read_lists(alloc, &file)?;
        let intent = PreparedIntent::of_lists(alloc, lists, file)?;
        Ok(intent)
    }

    /// The prepared intent of these lists. The file encodes them.
    fn of_lists(
        alloc: Global,
        lists: IntentLists,
        file: Vec<u8>,
    ) -> Result<PreparedIntent, AllocError>
        // The file is read as the intent of these lists.
        requires spelled { read_intent file.items
            ≡ Some (intent_of_lists lists.removals lists.writes) }
        // The names can be counted in 64 bits.
        requires few { length lists.removals + length lists.writes < 2 ^ 63 }
        // On Ok, the intent has these lists.
        ensures { IfOk result (λ intent. intent ≡ intent_of_lists lists.removals lists.writes) }
    {
        let stage_names = stage_names(alloc, lists.writes.len() + 1)?;
        let name = intent_name(alloc)?;
        Ok(PreparedIntent {
            removals: lists.removals,
            writes: lists.writes,
            stage_names,
            name,
            file,
        })
    }

    /// How many removals the intent has.
    pub fn removals_len(&self) -> usize
        ensures { result ≡ length self.now.removals }
    {
        self.removals.len()
    }

    /// How many writes the intent has.
    pub fn writes_len(&self) -> usize
        ensures { result ≡ length self.now.writes }
    {
        self.writes.len()
    }

    /// The name that the removal with this index, counted from 0, removes.
    pub fn removal(&self, i: usize) -> &Name
        // The index is that of one of the removals.
        requires { i < length self.now.removals }
        ensures { slice_get self.now.removals i ≡ Some result.now }
    {
        self.removals.get(i)
    }

    /// The name that the write with this index, counted from 0, writes. The number of its staged
    /// file is one more than the index.
    pub fn write(&self, i: usize) -> &Name
        // The index is that of one of the writes.
        requires { i < length self.now.writes }
        ensures { slice_get self.now.writes i ≡ Some result.now }
    {
        self.writes.get(i)
    }

    /// The name of the staged file with this number: 0 for the intent's container, and from 1 on
    /// for the writes.
    pub fn stage_name(&self, k: usize) -> &Name
        // The number is 0, or that of one of the writes.
        requires { k ≤ length self.now.writes }
        ensures { result.now ≡ stage_name k }
    {
        self.stage_names.get(k)
    }

    /// The name of the intent.
    pub fn name(&self) -> &Name
        ensures { result.now ≡ intent_name }
    {
        &self.name
    }

    /// The bytes of the intent's container.
    pub fn file(&self) -> &[u8]
        ensures { read_intent result.now ≡ Some self.now }
    {
        &self.file
    }

    /// A law: the names of the intent are free, no write is repeated, and there are fewer than 2^63
    /// names.
    pub fn names_are_free(&self)
        // No name belongs to the journal, no write is repeated, and no written name is removed.
        ensures free { HasFreeNamesAndUnrepeatedWrites self.now }
        // The names can be counted in 64 bits.
        ensures few { length self.now.removals + length self.now.writes < 2 ^ 63 }
    {
        // A law that the proof needs; it computes nothing.
        a_read_intent_has_free_names();
        // The proof needs that the file encodes this intent.
        let _ = &self.file;
    }
}
