//! The readers of words that the walk in `walk` calls. A word that cannot be read has the small
//! `VisitFault`, and no cause yet. The result of each reader is defined in `docs/formats.md`,
//! "Values".

ghost use Rattle.std.specs.Prelude.{◌≡◌, option_map};
ghost use Rattle.adb_view.specs.Adb.{payload_of};
ghost use Rattle.adb_view.specs.Entries.{array_entries};
ghost use Rattle.adb_view.specs.Gives.{Gives};
ghost use Rattle.adb_view.specs.Readers.{run_entries_of_kind_in_payload_at_word};
ghost use Rattle.adb_view.specs.Leaves.{is_sound_leaf, leaf_fault};
ghost use Rattle.adb_view.specs.VisitFault.{cause_of_fault, with_cause};

use crate::adb::Adb;
use crate::run::Arr;
use crate::tables::Kind;
use crate::visit_fault::VisitFault;
use crate::words::Val;

/// Whether the word can be read as `kind` demands, and has no words below it: it is NULL, an
/// integer, a text or a hash. Most words of a payload are such leaves. For a leaf, the walk needs
/// no further call.
#[tactic(auto, unfolding(crate::specs::Readers::int_of, crate::specs::Readers::blob_of))]
#[inline(always)]
pub(crate) fn is_sound_leaf(adb: Adb<'_>, kind: Kind, word: Val) -> bool
    ensures { result ≡ is_sound_leaf (payload_of adb.entry) kind word }
{
    if word.is_null() {
        return true;
    }
    match kind {
        Kind::Int => match adb.int_if_read(word) {
            Some(_) => true,
            None => false,
        },
        Kind::Text | Kind::Hash => match adb.blob_if_read(word) {
            Some(_) => true,
            None => false,
        },
        // An array or an object that is not NULL may have words below it.
        Kind::Obj(_) | Kind::TextArr | Kind::ObjArr(_) => false,
    }
}

/// Why the word cannot be read as a leaf of this kind. None if it can be read. An array and an
/// object are no leaves: for their kinds, the result is None too.
#[tactic(auto, using(crate::proofs::ReaderFaults::int_fault, crate::proofs::ReaderFaults::blob_fault))]
pub(crate) fn leaf_fault(adb: Adb<'_>, kind: Kind, word: Val) -> Option<VisitFault>
    ensures { option_map cause_of_fault result ≡ leaf_fault (payload_of adb.entry) kind word }
{
    match kind {
        Kind::Int => match adb.int(word) {
            Ok(_) => None,
            Err(cause) => Some(VisitFault::of_reader(cause)),
        },
        Kind::Text | Kind::Hash => match adb.blob(word) {
            Ok(_) => None,
            Err(cause) => Some(VisitFault::of_reader(cause)),
        },
        Kind::Obj(_) | Kind::TextArr | Kind::ObjArr(_) => None,
    }
}

/// All entries of the array or the object to which the word refers, or the fault if the word cannot
/// be read. `kind` is that of the words of arrays, or of objects.
#[tactic(auto, using(crate::proofs::ReaderFaults::run_fault, crate::proofs::ReaderFaults::read_ok))]
pub(crate) fn read_entries<'a>(adb: Adb<'a>, kind: u32, word: Val) -> Result<Arr<'a>, VisitFault>
    // The result has the words of the entries, or the cause of the definition.
    ensures { Gives array_entries (with_cause result)
        (run_entries_of_kind_in_payload_at_word kind (payload_of adb.entry) word) }
{
    // First without a cause, since a cause is large to move. After a failure, the word is read
    // again for the cause.
    if let Some(words) = Arr::find(adb.payload(), kind, word) {
        return Ok(words);
    }
    match Arr::read(adb.payload(), kind, word) {
        Ok(words) => Ok(words),
        Err(cause) => Err(VisitFault::of_reader(cause)),
    }
}
