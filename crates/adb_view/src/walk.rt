//! The walk that tests the shape of a payload: it visits each word below the root, depth first,
//! counts the visit, and tests whether the word can be read as its kind demands. `adb_schema`,
//! `pkg_core` and `apk_front` call `shape`. The rule is in `docs/formats.md`, "The shape".

ghost use Rattle.std.specs.Prelude.{min, drop, ◌<◌, slice_index, ◌≡◌, ◌≤◌, ◌+◌, IfOk, true, is_some, length, is_none, ◌↔◌, ℕ, List, Some, None};
ghost use Rattle.std.specs.Result.{result_err};
ghost use Rattle.adb_view.specs.Plain.{Fields, plains_of, Shape, object, plain_of};
ghost use Rattle.adb_view.specs.Visits.{field_visits, visits, MOST_VALUES};
ghost use Rattle.adb_view.specs.Adb.{payload_of};
ghost use Rattle.adb_view.specs.Entries.{array_entries};
ghost use Rattle.adb_view.specs.Head.{root_word_of_payload};
ghost use Rattle.adb_view.specs.Schema.{table, shape_of, shapes_of, table_number};
ghost use Rattle.adb_view.specs.Walk.{first_fault_of_numbered_visits, shape_fault};
ghost use Rattle.adb_view.specs.CountedWalk.{fields_walk};
ghost use Rattle.adb_view.specs.CountedWalk.{walk};
ghost use Rattle.adb_view.specs.CountedWalk.{walk_each_word};
ghost use Rattle.adb_view.specs.Leaves.{leading_leaves};
ghost use Rattle.adb_view.specs.FirstFault.{IsFirstFaultOfVisits};
ghost use Rattle.adb_view.specs.VisitFault.{with_cause};
ghost use Rattle.adb_view.specs.ShapedPayload.{adb_of, table_of};
ghost use Rattle.adb_view.specs.Values.{is_sound, value_at};
ghost use Rattle.base_core.specs.declared.cause.Cause.{Cause};
ghost use Rattle.adb_view.specs.declared.tables.Which.{Which};
ghost use Rattle.adb_view.specs.declared.tables.Kind.TheVariants as Kinds;

use crate::adb::{Adb, value_is_found_where_visits_are_sound};
use crate::readers::{is_sound_leaf, leaf_fault, read_entries};
use crate::run::Arr;
use crate::shaped::Shaped;
use crate::tables::{Field, Kind, Which, fields_of};
use crate::visit_fault::VisitFault;
use crate::words::{Val, kind as word_kind};
use base_core::Cause;

/// The word of the entry with the index `i`, which counts from 0.
pub fn entry_word(entries: Arr<'_>, i: usize) -> Val
    // The index is that of an entry.
    requires { i < length (array_entries entries) }
    // The result is the entry with this index.
    ensures { result ≡ slice_index (array_entries entries.entry) i }
{
    let len = entries.len();
    // So the position `i + 1`, which counts from 1, is that of an entry.
    prove!(i < len);
    entries.get(i + 1)
}

/// The most visits of a payload's walk (`docs/formats.md`, "The shape"). A word to which two other
/// values refer is visited twice.
const MOST_VALUES: u32 = 4_194_304;

/// Walks the values of a payload from its root, which is read as an object of the table `which`. A
/// word is visited before its entries, and these in order. At each visit, the count of visits is
/// tested first, then the kind of the word, then the range to which the word points. Entries past
/// the fields of an object's table are not visited.
///
/// # Errors
///
/// The first fault of a visit: `TooLarge` at the visit 4,194,305, else `WrongKind` or `Outside`
/// with the word of the visit.
#[tactic(auto, using(crate::proofs::ShapeWalk::walk_refused, crate::proofs::ShapeWalk::walk_passed, crate::proofs::ShapeWalk::walk_few))]
pub fn shape(adb: Adb<'_>, which: Which) -> Result<Shaped<'_>, Cause>
    // The error, if any, is the first fault that the walk finds.
    ensures exact { result_err result
        ≡ shape_fault (payload_of adb.entry) (shape_of (Kinds.Obj which))
        (root_word_of_payload (payload_of adb.entry)) }
    // On Ok, the result has the payload that was walked.
    ensures walked { IfOk result (λ shaped. adb_of shaped ≡ adb.entry) }
    // On Ok, the result has the table by which the payload was walked.
    ensures table { IfOk result (λ shaped. table_of shaped ≡ which) }
{
    // A law that the proof needs; it has no effect at run time.
    value_is_found_where_visits_are_sound();
    match walk_value(adb, Kind::Obj(which), 0, adb.root()) {
        Ok(_) => Ok(Shaped::of(adb, which)),
        Err(fault) => Err(fault.cause()),
    }
}

/// Visits the word `word`, as a value of the kind `kind`, and the words below it. `before` is the
/// number of visits before, and the result is the number of visits afterwards.
#[cycle(walk)]
#[tactic(auto, using(crate::proofs::WalkSteps::walk_full))]
fn walk_value(adb: Adb<'_>, kind: Kind, before: u32, word: Val) -> Result<u32, VisitFault>
    // The number of visits before is within its limit.
    requires { before ≤ MOST_VALUES }
    // The result is that of the definition: the number of visits afterwards, or the first fault.
    ensures exact { with_cause result ≡ walk (payload_of adb.entry) (shape_of kind) before word }
    // On Ok, the number of visits afterwards is within its limit.
    ensures bound { IfOk result (λ n. n ≤ MOST_VALUES) }
{
    let count = before + 1;
    if count > MOST_VALUES {
        return Err(VisitFault::TooLarge { count });
    }
    match kind {
        Kind::Int | Kind::Text | Kind::Hash => match leaf_fault(adb, kind, word) {
            None => Ok(count),
            Some(fault) => Err(fault),
        },
        Kind::TextArr => match read_entries(adb, word_kind::ARRAY, word) {
            Ok(texts) => walk_texts(adb, count, texts),
            Err(fault) => Err(fault),
        },
        Kind::ObjArr(which) => match read_entries(adb, word_kind::ARRAY, word) {
            Ok(objects) => walk_objects(adb, which, count, objects),
            Err(fault) => Err(fault),
        },
        // `walk_object` counts the visit of the object itself.
        Kind::Obj(which) => walk_object(adb, which, before, word),
    }
}

/// Visits the entries of an array of texts, of which `texts` has the words. `before` and the result
/// count visits as in `walk_value`.
#[cycle(walk)]
fn walk_texts(adb: Adb<'_>, before: u32, texts: Arr<'_>) -> Result<u32, VisitFault>
    // The number of visits before is within its limit.
    requires { before ≤ MOST_VALUES }
    // The result is that of the definition: the number of visits afterwards, or the first fault.
    ensures exact { with_cause result
        ≡ walk_each_word (walk (payload_of adb.entry) (shape_of Kinds.Text)) before
        (array_entries texts.entry) }
    // On Ok, the number of visits afterwards is within its limit.
    ensures bound { IfOk result (λ n. n ≤ MOST_VALUES) }
{
    let mut count = before;
    for i in 0..texts.len() {
        let word = entry_word(texts, i);
        // A text that can be read is only counted. Otherwise `walk_value` finds the fault.
        if count < MOST_VALUES && is_sound_leaf(adb, Kind::Text, word) {
            count += 1;
        } else {
            count = walk_value(adb, Kind::Text, count, word)?;
        }
    }
    Ok(count)
}

/// Visits the entries of an array of objects of the table `which`, and the words below them.
/// `objects` has the words of the entries. `before` and the result count visits as in `walk_value`.
#[cycle(walk)]
fn walk_objects(
    adb: Adb<'_>,
    which: Which,
    before: u32,
    objects: Arr<'_>,
) -> Result<u32, VisitFault>
    // The number of visits before is within its limit.
    requires { before ≤ MOST_VALUES }
    // The result is that of the definition: the number of visits afterwards, or the first fault.
    ensures exact { with_cause result
        ≡ walk_each_word (walk (payload_of adb.entry) (shape_of (Kinds.Obj which))) before
        (array_entries objects.entry) }
    // On Ok, the number of visits afterwards is within its limit.
    ensures bound { IfOk result (λ n. n ≤ MOST_VALUES) }
{
    let mut count = before;
    for i in 0..objects.len() {
        count = walk_object(adb, which, count, entry_word(objects, i))?;
    }
    Ok(count)
}

/// Visits the word of an object of the table `which`, and the words below it. `before` and the
/// result count visits as in `walk_value`.
#[cycle(walk)]
#[inline(always)]
#[tactic(auto, using(crate::proofs::WalkSteps::walk_full))]
fn walk_object(adb: Adb<'_>, which: Which, before: u32, word: Val) -> Result<u32, VisitFault>
    // The number of visits before is within its limit.
    requires { before ≤ MOST_VALUES }
    // The result is that of the definition: the number of visits afterwards, or the first fault.
    ensures exact { with_cause result
        ≡ walk (payload_of adb.entry) (shape_of (Kinds.Obj which)) before word }
    // On Ok, the number of visits afterwards is within its limit.
    ensures bound { IfOk result (λ n. n ≤ MOST_VALUES) }
{
    let count = before + 1;
    if count > MOST_VALUES {
        return Err(VisitFault::TooLarge { count });
    }
    match read_entries(adb, word_kind::OBJECT, word) {
        Ok(entries) => walk_each_field(adb, fields_of(which), count, entries),
        Err(fault) => Err(fault),
    }
}

/// Visits the entries of an object that have one of the fields `fields`, each by its field's kind.
/// Entries past the fields are ignored. `before` and the result count visits as in `walk_value`.
/// The first entries that are leaves are counted at once, if the limit allows all of them.
#[cycle(walk)]
#[inline(always)]
#[tactic(auto, using(crate::proofs::LeafSteps::leaves_walk, crate::proofs::LeafSteps::leaves_fit, crate::proofs::WalkSteps::fields_end))]
fn walk_each_field(
    adb: Adb<'_>,
    fields: &[Field],
    before: u32,
    entries: Arr<'_>,
) -> Result<u32, VisitFault>
    // The number of visits before is within its limit.
    requires { before ≤ MOST_VALUES }
    // The result is that of the definition: the number of visits afterwards, or the first fault.
    ensures exact { with_cause result
        ≡ fields_walk (payload_of adb.entry) (shapes_of fields.now) before
        (array_entries entries.entry) }
    // On Ok, the number of visits afterwards is within its limit.
    ensures bound { IfOk result (λ n. n ≤ MOST_VALUES) }
{
    let leaves = leading_leaves(adb, fields, entries);
    if before as usize + leaves > MOST_VALUES as usize {
        return walk_fields_from(adb, fields, 0, before, entries);
    }
    let count = before + leaves as u32;
    // All entries with a field are leaves that can be read: there is nothing more to visit.
    if leaves == fields.len().min(entries.len()) {
        return Ok(count);
    }
    walk_fields_from(adb, fields, leaves, count, entries)
}

/// Visits those entries of an object that have one of the fields `fields`, from the index `from`
/// on. `before` and the result count visits as in `walk_value`.
#[cycle(walk)]
#[inline(never)]
#[tactic(auto, using(crate::proofs::WalkSteps::fields_end, crate::proofs::WalkSteps::field_rank))]
fn walk_fields_from(
    adb: Adb<'_>,
    fields: &[Field],
    from: usize,
    before: u32,
    entries: Arr<'_>,
) -> Result<u32, VisitFault>
    // The number of visits before is within its limit.
    requires few { before ≤ MOST_VALUES }
    // The index is at most the number of entries that have a field.
    requires within { from ≤ min (length fields.now) (length (array_entries entries)) }
    // The result is that of the definition: the number of visits afterwards, or the first fault.
    ensures exact { with_cause result
        ≡ fields_walk (payload_of adb.entry) (shapes_of (drop from fields.now)) before
        (drop from (array_entries entries.entry)) }
    // On Ok, the number of visits afterwards is within its limit.
    ensures bound { IfOk result (λ n. n ≤ MOST_VALUES) }
{
    let mut count = before;
    for i in from..fields.len().min(entries.len()) {
        let kind = fields[i].kind;
        let word = entry_word(entries, i);
        // A leaf that can be read is only counted. Other words are walked.
        if count < MOST_VALUES && is_sound_leaf(adb, kind, word) {
            count += 1;
        } else {
            count = walk_value(adb, kind, count, word)?;
        }
    }
    Ok(count)
}

/// How many of an object's entries, from the first on, are leaves that can be read, each as the
/// kind of its field demands.
#[inline(always)]
#[tactic(auto, using(crate::proofs::LeafSteps::leaves_more, crate::proofs::LeafSteps::leaves_stop, crate::proofs::LeafSteps::leaves_end))]
fn leading_leaves(adb: Adb<'_>, fields: &[Field], entries: Arr<'_>) -> usize
    // The number is that of the definition with this name.
    ensures { result
        ≡ leading_leaves (payload_of adb.entry) fields.now (array_entries entries.entry) }
{
    let most = fields.len().min(entries.len());
    for i in 0..most {
        if !is_sound_leaf(adb, fields[i].kind, entry_word(entries, i)) {
            return i;
        }
    }
    most
}

/// Visits the entries of an object that have one of the fields `fields`, which need not be those of
/// a table. `before` and the result count visits as in `walk_value`.
///
/// # Errors
///
/// The first fault of a visit, as `shape` reports it.
pub fn walk_fields(
    adb: Adb<'_>,
    fields: &[Field],
    before: u32,
    entries: Arr<'_>,
) -> Result<u32, Cause>
    // The number of visits before is within its limit.
    requires { before ≤ MOST_VALUES }
    // The result is that of the definition: the number of visits afterwards, or the first fault.
    ensures exact { result
        ≡ fields_walk (payload_of adb.entry) (shapes_of fields.now) before
        (array_entries entries.entry) }
    // On Ok, the number of visits afterwards is within its limit.
    ensures bound { IfOk result (λ n. n ≤ MOST_VALUES) }
{
    match walk_each_field(adb, fields, before, entries) {
        Ok(count) => Ok(count),
        Err(fault) => Err(fault.cause()),
    }
}

/// A law: the walk over an object's entries, by any list of fields, reports the fault of the first
/// faulty visit. If no visit is faulty, the walk returns the number of visits, and each entry with
/// a field has a plain value.
pub fn a_walk_of_fields_reports_the_first_faulty_visit()
    // An error is the fault of the first faulty visit.
    ensures fault { (payload : List ℕ) (fields : Fields) (before : ℕ) (words : List ℕ)
        → result_err (fields_walk payload fields before words)
        ≡ first_fault_of_numbered_visits payload (before + 1) (field_visits payload fields words) }
    // On Ok, the count has risen by the number of visits.
    ensures count { (payload : List ℕ) (fields : Fields) (before count : ℕ) (words : List ℕ)
        → fields_walk payload fields before words ≡ Ok count → count
        ≡ before + length (field_visits payload fields words) }
    // On Ok, each entry with a field has a plain value.
    ensures value { (payload : List ℕ) (fields : Fields) (before count : ℕ) (words : List ℕ)
        → fields_walk payload fields before words ≡ Ok count
        → is_some (plains_of payload fields words) ≡ true }
{
    // A law that the proof needs; it has no effect at run time.
    value_is_found_where_visits_are_sound();
}

/// A law: the fault that is reported of a payload is that of its first faulty visit, in depth-first
/// order. If no visit is faulty, no fault is reported.
pub fn the_first_faulty_visit_is_reported()
    ensures { (payload : List ℕ) (shape : Shape) (word : ℕ) (cause : Cause)
        → (shape_fault payload shape word ≡ Some cause)
        ↔ IsFirstFaultOfVisits payload (visits payload shape word) cause }
{}

/// A law: no fault is reported exactly if the word has a plain value and the number of visits is
/// within its limit.
pub fn values_of_few_visits_have_no_fault()
    ensures { (payload : List ℕ) (shape : Shape) (word : ℕ)
        → (shape_fault payload shape word ≡ None) ↔ ((is_some (plain_of payload shape word) ≡ true)
        × (length (visits payload shape word) ≤ MOST_VALUES)) }
{
    // A law that the proof needs; it has no effect at run time.
    value_is_found_where_visits_are_sound();
}
