//! `places_in`: which members the entries of a `replaces` name. Each entry asks a question: does it
//! name the member that has its name? Many entries may share the text of a version, so equal
//! questions are answered once.
//! `docs/commands.md`, "Files that several packages list", says when an entry names a package. To
//! answer a question once is this crate's own choice; it only saves time.

ghost use Rattle.std.specs.Prelude.{◌≡◌, ◌<◌, ◌-◌, ◌+◌, ◌==◌, ◌||◌, ℕ, true, All, Some, IfOk, IfSome, length, slice_get, take};
ghost use Rattle.std.specs.List.{list_any};
ghost use Rattle.adb_view.specs.Adb.{payload_of};
ghost use Rattle.adb_view.specs.Entries.{array_entries};
ghost use Rattle.adb_view.specs.Shaped.{Each};
ghost use Rattle.adb_view.specs.Values.{entries_in, is_sound, value_at};
ghost use Rattle.adb_view.specs.declared.tables.Kind.TheVariants as Kinds;
ghost use Rattle.adb_view.specs.declared.tables.Which.TheVariants as Tables;
ghost use Rattle.path_claims.specs.adb_fields.Fields.{are_all_sound, array_at};
ghost use Rattle.path_claims.specs.adb_fields.Repeated.{list_of};
ghost use Rattle.db_core.specs.adb_schema.SoundValues.{ObeysTextAndNumberRulesOfDependency};
ghost use Rattle.db_core.specs.Members.{Member, is_found_place};
ghost use Rattle.db_core.specs.Seen.{members_of};
ghost use Rattle.file_owners.specs.Questions.{AreSameQuestion, IsQuestionIn, question_names_package, question_names_if_any, with_question};
ghost use Rattle.file_owners.specs.Replaces.{does_replaces_entry_name_package};
ghost use Rattle.file_owners.specs.declared.questions.Question.{Question as AskedQuestion};

use crate::gather::place_of;
use crate::owner::does_replaces_entry_name_package;
use adb_view::{Adb, Arr, Val, Which, entry_word};
use db_core::{DepView, Members, View};
use path_claims::field_word;
use std::alloc::{AllocError, Global};
use std::cmp::Ordering;

/// The number of the field `version` in a dependency.
const VERSION: usize = 1;

/// What an entry of `replaces` asks: whether it names the member that has the entry's name.
#[derive(Clone, Copy)]
pub(crate) struct Question {
    /// The index of the member with the entry's name.
    pub(crate) place: u32,
    /// The word (32-bit reference) of the entry's version, in the payload of the entry.
    pub(crate) version: u32,
    /// The match bits of the entry: which results of a comparison with this version it accepts.
    pub(crate) matching: u64,
    /// The word (32-bit reference) of the entry itself.
    pub(crate) word: Val,
}

impl Question {
    /// An order of questions, by member, word of the version, and match bits. Equal questions are
    /// adjacent in it.
    fn compare(&self, other: &Question) -> Ordering {
        let by_place = self.place.cmp(&other.place);
        let by_version = self.version.cmp(&other.version);
        let by_matching = self.matching.cmp(&other.matching);
        by_place.then(by_version.then(by_matching))
    }

    /// Whether two questions are the same. Words of versions are compared, and not the texts.
    fn is_same(&self, other: &Question) -> bool
        ensures { result ≡ true → AreSameQuestion self.now other.now }
    {
        self.place == other.place
            && self.version == other.version
            && self.matching == other.matching
    }
}

/// The indexes of the members that the entries of a `replaces` name. The entries are words in the
/// container `adb`. A text of a version that several entries share is compared once for each member
/// and operator.
pub(crate) fn places_in<'a>(
    alloc: Global,
    members: &Members<'_>,
    adb: Adb<'a>,
    entries: Arr<'a>,
) -> Result<Vec<u32>, AllocError>
    // Each word of an entry leads to a value with the shape of a dependency.
    requires sound { are_all_sound (payload_of adb) (Kinds.Obj Tables.Dep) (array_entries entries)
        ≡ true }
    // The entries obey the rules of dependencies.
    requires texts { Each ObeysTextAndNumberRulesOfDependency (entries_in
        (array_at (payload_of adb) (Kinds.Obj Tables.Dep) (array_entries entries))) }
    // On Ok, the index y of a member m is in the result exactly if one of the entries names m.
    ensures { IfOk result (λ places. (y : ℕ) (m : Member)
        → slice_get (members_of members.now) y ≡ Some m
        → list_any (λ place. place == y) places.items
        ≡ list_any (λ entry. does_replaces_entry_name_package entry m.pkg) (list_of (entries_in
        (array_at (payload_of adb.entry) (Kinds.Obj Tables.Dep) (array_entries entries.entry))))) }
{
    // Sorting makes equal questions adjacent, so that each is answered once.
    let mut questions = questions_of(alloc, members, adb, entries)?;
    questions.sort_by(|one, other| one.compare(other))?;
    let places = places_asked(alloc, members, adb, &questions)?;
    Ok(places)
}

/// The questions of the entries, in the order of the entries. An entry asks none if no member has
/// its name.
fn questions_of<'a>(
    alloc: Global,
    members: &Members<'_>,
    adb: Adb<'a>,
    entries: Arr<'a>,
) -> Result<Vec<Question>, AllocError>
    // Each word of an entry leads to a value with the shape of a dependency.
    requires sound { are_all_sound (payload_of adb) (Kinds.Obj Tables.Dep) (array_entries entries)
        ≡ true }
    // The entries obey the rules of dependencies.
    requires texts { Each ObeysTextAndNumberRulesOfDependency (entries_in
        (array_at (payload_of adb) (Kinds.Obj Tables.Dep) (array_entries entries))) }
    // For each member, one of the questions about it has the answer yes exactly if one of the
    // entries names the member.
    ensures asked { IfOk result (λ questions. (y : ℕ) (m : Member)
        → slice_get (members_of members.now) y ≡ Some m
        → list_any (question_names_package (payload_of adb.entry) y m.pkg) questions.items
        ≡ list_any (λ entry. does_replaces_entry_name_package entry m.pkg) (list_of (entries_in
        (array_at (payload_of adb.entry) (Kinds.Obj Tables.Dep) (array_entries entries.entry))))) }
    // Each question is about one of the members.
    ensures questions { IfOk result (λ questions.
        All (IsQuestionIn (members_of members.now) (payload_of adb.entry)) questions.items) }
{
    let mut questions = Vec::new(alloc);
    for i in 0..entries.len() {
        add_question(
            &mut questions,
            question_of(members, adb, entry_word(entries, i)),
        )?;
    }
    Ok(questions)
}

/// Adds the question at the end of the list, if there is one.
fn add_question(questions: &mut Vec<Question>, question: Option<Question>) -> Result<(), AllocError>
    // On Ok, the question, if there is one, is added at the end.
    ensures { IfOk result (λ _. questions.new.items
        ≡ with_question questions.old.items question) }
{
    if let Some(question) = question {
        questions.push(question)?;
    }
    Ok(())
}

/// The question of the entry whose word is `entry`, if a member has the entry's name.
fn question_of(members: &Members<'_>, adb: Adb<'_>, entry: Val) -> Option<Question>
    // The word leads to a value with the shape of a dependency.
    requires sound { is_sound (payload_of adb) (Kinds.Obj Tables.Dep) entry ≡ true }
    // The entry obeys the rules of a dependency.
    requires texts { ObeysTextAndNumberRulesOfDependency (value_at (payload_of adb)
        (Kinds.Obj Tables.Dep) entry) }
    // For each member, there is a question about it whose answer is yes exactly if the entry names
    // the member.
    ensures asked { (y : ℕ) (m : Member) → slice_get (members_of members.now) y ≡ Some m
        → question_names_if_any (payload_of adb.entry) y m.pkg result
        ≡ does_replaces_entry_name_package (value_at (payload_of adb.entry)
        (Kinds.Obj Tables.Dep) entry) m.pkg }
    // The question is about one of the members.
    ensures question { IfSome result
        (IsQuestionIn (members_of members.now) (payload_of adb.entry)) }
{
    let view = DepView::of(adb, entry);
    match members.find(view.name()) {
        Some(place) => Some(Question {
            place: place_of(members, place),
            version: field_word(adb, Which::Dep, entry, VERSION).word(),
            matching: view.matching(),
            word: entry,
        }),
        None => None,
    }
}

/// The indexes of the members of those questions whose answer is yes, in the order of the
/// questions. Adjacent equal questions are answered once.
fn places_asked(
    alloc: Global,
    members: &Members<'_>,
    adb: Adb<'_>,
    questions: &[Question],
) -> Result<Vec<u32>, AllocError>
    // Each question is about one of the members.
    requires { All (IsQuestionIn (members_of members.now) (payload_of adb)) questions.now }
    // On Ok, the index y of a member m is in the result exactly if one of the questions is about m
    // and has the answer yes.
    ensures { IfOk result (λ places. (y : ℕ) (m : Member)
        → slice_get (members_of members.now) y ≡ Some m
        → list_any (λ place. place == y) places.items
        ≡ list_any (question_names_package (payload_of adb.entry) y m.pkg) questions.now) }
{
    let mut places = Vec::new(alloc);
    for i in 0..questions.len() {
        add_place(&mut places, place_asked(members, adb, questions, i))?;
    }
    Ok(places)
}

/// Adds the index `place` of a member at the end of the list, if there is one.
fn add_place(places: &mut Vec<u32>, place: Option<u32>) -> Result<(), AllocError>
    // On Ok, an index y is in the new list exactly if it was in the old one, or is the given one.
    ensures { IfOk result (λ _. (y : ℕ) → list_any (λ p. p == y) places.new.items
        ≡ (list_any (λ p. p == y) places.old.items || is_found_place y place)) }
{
    if let Some(place) = place {
        places.push(place)?;
    }
    Ok(())
}

/// The index of the member of the question with the index `i`, if the answer is yes, and the
/// question before it is not the same.
fn place_asked(members: &Members<'_>, adb: Adb<'_>, questions: &[Question], i: usize) -> Option<u32>
    // The index is that of one of the questions.
    requires within { i < length questions.now }
    // Each question is about one of the members.
    requires questions { All (IsQuestionIn (members_of members.now) (payload_of adb))
        questions.now }
    // The index y of a member m is that of an earlier question with the answer yes, or the result,
    // exactly if one of the questions up to this one is about m and has the answer yes.
    ensures { (y : ℕ) (m : Member) → slice_get (members_of members.now) y ≡ Some m
        → (list_any (question_names_package (payload_of adb.entry) y m.pkg) (take i questions.now)
        || is_found_place y result)
        ≡ list_any (question_names_package (payload_of adb.entry) y m.pkg) (take
        (i + 1) questions.now) }
{
    if repeats_the_one_before(questions, i) {
        return None;
    }
    place_if_named(members, adb, &questions[i])
}

/// Whether the question with the index `i` is the same as the one before it.
fn repeats_the_one_before(questions: &[Question], i: usize) -> bool
    // The index is that of one of the questions.
    requires { i < length questions.now }
    // The first question is not a repeated one.
    ensures first { result ≡ true → 0 < i }
    // If the result is true, this question and the one before it are the same.
    ensures same { result ≡ true → (one other : AskedQuestion)
        → slice_get questions.now (i - 1) ≡ Some one → slice_get questions.now i ≡ Some other
        → AreSameQuestion one other }
{
    if i == 0 {
        return false;
    }
    questions[i - 1].is_same(&questions[i])
}

/// The index of the member that the question is about, if the question's entry of `replaces` names
/// the package of this member. The entry is a value in the container `adb`.
fn place_if_named(members: &Members<'_>, adb: Adb<'_>, question: &Question) -> Option<u32>
    // The question is about one of the members.
    requires { IsQuestionIn (members_of members.now) (payload_of adb) question.now }
    // The result is the index y of a member m exactly if the question is about m and its entry
    // names the package of m.
    ensures { (y : ℕ) (m : Member) → slice_get (members_of members.now) y ≡ Some m
        → is_found_place y result
        ≡ question_names_package (payload_of adb.entry) y m.pkg question.now }
{
    // A law that the proof needs; it computes nothing.
    members.packages_are_sound();
    let place = question.place;
    let entry = DepView::of(adb, question.word);
    if does_replaces_entry_name_package(&entry, members.view(place as usize)) {
        Some(place)
    } else {
        None
    }
}
