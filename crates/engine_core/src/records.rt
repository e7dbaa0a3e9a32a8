//! The database after a change, and the stage of its files. The rules are in `docs/formats.md`,
//! "The database after a change", and in `docs/crash-safety.md`, "A change of several files"; the
//! limits in `docs/formats.md`, "Canonical layout".
ghost use Rattle.change_outcome.specs.adb_write.Canonical.{counts_at_first_overflow};
ghost use Rattle.change_report.specs.change_inputs.Answers.{Agrees};
ghost use Rattle.change_report.specs.change_outcome.ChangeOutcome.{is_absent_or_different, or_result_too_large, unless_overflow};
ghost use Rattle.change_report.specs.db_core.Seen.{members_of};
ghost use Rattle.change_report.specs.db_core.NewDatabase.{database_of};
ghost use Rattle.change_report.specs.journal_core.Staged.{new_stage_of_removals_and_writes};
ghost use Rattle.change_report.specs.journal_intent.Intent.{AreDistinctNamesAllowedInIntent};
ghost use Rattle.change_report.specs.journal_intent.IntentValue.{intent_of_lists, value_of_intent};
ghost use Rattle.std.specs.Option.{option_copied};
ghost use Rattle.std.specs.Prelude.{◌≡◌, ◌++◌, true, IfOk};

use base_core::Names;
use change_outcome::WriteFault;
use change_report::{Members, Owned, Refused, Stage, write_db};
use report_core::Refusal;
use std::alloc::Global;

/// The bytes of the database that lists the packages after a change, each with those of its files
/// that it owns. `owned` says which files these are.
///
/// # Errors
///
/// `ResultTooLarge` if the database exceeds a limit of the writer, or `Memory`.
pub(crate) fn new_database(
    alloc: Global,
    members: &Members<'_>,
    owned: &Owned,
) -> Result<Vec<u8>, Refused>
    // The result is the definition's: the bytes of the database, or the refusal; or out of memory.
    ensures { Agrees (λ file. file.items) result
        (or_result_too_large (database_of (members_of members.now) owned.now)) }
{
    match write_db(alloc, members, owned) {
        Ok(file) => Ok(file),
        Err(WriteFault::TooLarge { bytes, values }) => {
            Err(Refused::Refusal(Refusal::ResultTooLarge { bytes, values }))
        }
        Err(WriteFault::Memory) => Err(Refused::Memory),
    }
}

/// Whether a file is absent or has other bytes than these.
pub(crate) fn is_absent_or_different(found: Option<&[u8]>, bytes: &[u8]) -> bool
    ensures { result ≡ is_absent_or_different (option_copied found.entry) bytes.now }
{
    match found {
        Some(old) => old != bytes,
        None => true,
    }
}

/// Makes the stage of a change, which later writes its files. Its intent (journal entry) is made in
/// memory: the names that are removed and those that are written, each list in byte order. The tree
/// is not called.
///
/// # Errors
///
/// `ResultTooLarge` if the intent exceeds a limit of the writer, or `Memory`.
pub(crate) fn begin_stage(alloc: Global, removals: Names, writes: Names) -> Result<Stage, Refused>
    // No name is twice in the lists, and an intent may have each of them.
    requires { AreDistinctNamesAllowedInIntent (removals ++ writes) }
    // The stage is the new one of these names, of which nothing is written yet.
    ensures stage { IfOk result (λ stage. stage
        ≡ new_stage_of_removals_and_writes removals writes) }
    // Refused exactly if the intent exceeds a limit of the writer, unless memory ran out.
    ensures told { Agrees (λ _. true) result (unless_overflow
        (counts_at_first_overflow (value_of_intent (intent_of_lists removals writes))) true) }
{
    match Stage::of_names(alloc, removals, writes) {
        Ok(stage) => Ok(stage),
        Err(WriteFault::TooLarge { bytes, values }) => {
            Err(Refused::Refusal(Refusal::ResultTooLarge { bytes, values }))
        }
        Err(WriteFault::Memory) => Err(Refused::Memory),
    }
}
