//! Tests whether the texts of a package's information obey their rules. A long text is tested once,
//! however many fields of the package share it. The rules are in `docs/formats.md`, "The texts":
//! fields 101 to 103 for the entries of `depends`, `provides` and `install-if`, and 302 for the
//! version. Which dependency a good entry denotes is defined in "Dependencies" there.
ghost use Rattle.std.specs.Prelude.{◌≡◌, true, false, Some, IfOk, IfSome, IfNone};
ghost use Rattle.std.specs.Option.{option_map};
ghost use Rattle.adb_schema.specs.adb_fields.Fields.{are_all_sound, array_at};
ghost use Rattle.adb_schema.specs.TextRules.{keeps_text_rule};
ghost use Rattle.adb_schema.specs.Views.{info_value};
ghost use Rattle.adb_view.specs.Values.{entry_at_index, is_sound, kind_at, text_in, value_at};
ghost use Rattle.adb_view.specs.declared.tables.Kind.TheVariants as Kinds;
ghost use Rattle.adb_view.specs.declared.tables.Which.TheVariants as Tables;
ghost use Rattle.adb_view.specs.Adb.{payload_of};
ghost use Rattle.adb_view.specs.Entries.{array_entries};
ghost use Rattle.dep_core.specs.Meets.{dependency};
ghost use Rattle.candidate_core.specs.Candidates.{dependency_in};
ghost use Rattle.candidate_core.specs.SoundTexts.{HasSoundEntries, HasSoundTexts};

use adb_schema::{Judged, PkgInfo, TextRule, field_word, int_field, objects_field, text_word};
use adb_view::{Arr, Val, Which, entry_word};
use dep_core::{Dep, dep_of_parts};
use std::alloc::{AllocError, Global};

/// The index of the version among the fields of a package's information (table 3 of
/// `docs/formats.md`, "Schemas", which counts from 1; an index counts from 0).
pub(crate) const PACKAGE_VERSION: usize = 1;

/// The index of `depends`, in the same table (table 3, which has it as 15).
pub(crate) const DEPENDS: usize = 14;

/// The index of `provides` (16 in table 3).
pub(crate) const PROVIDES: usize = 15;

/// The index of `install-if` (18 in table 3).
const INSTALL_IF: usize = 17;

/// The index of the name among the fields of a dependency (table 1 of "Schemas"), counted from 0
/// too.
const NAME: usize = 0;

/// The index of the version of a dependency (2 in table 1).
pub(crate) const VERSION: usize = 1;

/// The index of the match number of a dependency (3 in table 1).
const MATCHING: usize = 2;

/// Whether the texts of a package obey their rules: its version is a version, and each entry of its
/// `depends`, `provides` and `install-if` is a dependency. `true` is reliable. After `false` the
/// candidate's texts are tested each time that they are read, which only costs time.
pub fn has_sound_texts(alloc: Global, info: PkgInfo<'_>) -> Result<bool, AllocError>
    ensures { IfOk result (λ sound. sound ≡ true → HasSoundTexts (info_value info.entry)) }
{
    // The texts that were tested so far, with their results.
    let mut judged = Judged::new(alloc, info.adb());
    let word = info.word();
    let version = text_if_kept(
        &mut judged,
        Which::PkgInfo,
        word,
        PACKAGE_VERSION,
        TextRule::Version,
    )?;
    if version.is_none() {
        return Ok(false);
    }
    let depends = has_sound_entries(&mut judged, word, DEPENDS)?;
    let provides = has_sound_entries(&mut judged, word, PROVIDES)?;
    let install_if = has_sound_entries(&mut judged, word, INSTALL_IF)?;
    Ok(depends && provides && install_if)
}

// Whether each entry of the list in a field of a package's information is a dependency. `word` is
// the word (32-bit value) of the information.
fn has_sound_entries(judged: &mut Judged<'_>, word: Val, field: usize) -> Result<bool, AllocError>
    // The word is that of a package's information, and the field is a list of dependencies.
    requires sound { is_sound (payload_of judged.old.adb) (Kinds.Obj Tables.PkgInfo) word ≡ true }
    requires kind { kind_at Tables.PkgInfo field ≡ Some (Kinds.ObjArr Tables.Dep) }
    // If the result is true, each entry of the list in the field is a dependency.
    ensures entries { IfOk result (λ sound. sound ≡ true → HasSoundEntries (entry_at_index
        (value_at (payload_of judged.old.adb) (Kinds.Obj Tables.PkgInfo) word) field)) }
    ensures payload { judged.new.adb ≡ judged.old.adb }
{
    let words = objects_field(judged.adb(), Which::PkgInfo, word, field, Which::Dep);
    are_dependencies(judged, words)
}

// Whether each of these words (32-bit values) refers to a dependency.
#[tactic(auto, using(adb_fields::proofs::FieldReads::entry_sound))]
fn are_dependencies<'a>(judged: &mut Judged<'a>, words: Arr<'a>) -> Result<bool, AllocError>
    // Each word can be read as an object of the kind dependency.
    requires { are_all_sound (payload_of judged.old.adb) (Kinds.Obj Tables.Dep)
        (array_entries words) ≡ true }
    // If the result is true, each entry of the array is a dependency.
    ensures entries { IfOk result (λ sound. sound ≡ true → HasSoundEntries (array_at
        (payload_of judged.old.adb) (Kinds.Obj Tables.Dep) (array_entries words.entry))) }
    ensures payload { judged.new.adb ≡ judged.old.adb }
{
    for i in 0..words.len() {
        let found = read_entry(judged, entry_word(words, i))?;
        if found.is_none() {
            return Ok(false);
        }
    }
    Ok(true)
}

// The dependency to which a word (32-bit value) refers, if the object there is a dependency.
#[tactic(auto, unfolding(dep_core::specs::ValueReading::dependency_of_value))]
fn read_entry<'a>(judged: &mut Judged<'a>, word: Val) -> Result<Option<Dep<'a>>, AllocError>
    requires { is_sound (payload_of judged.old.adb) (Kinds.Obj Tables.Dep) word ≡ true }
    // The dependency that the word refers to, if it is one.
    ensures found { IfOk result (λ found. option_map dependency found ≡ dependency_in
        (value_at (payload_of judged.old.adb) (Kinds.Obj Tables.Dep) word)) }
    ensures payload { judged.new.adb ≡ judged.old.adb }
{
    let Some(name) = text_if_kept(judged, Which::Dep, word, NAME, TextRule::DependencyName)? else {
        return Ok(None);
    };
    let Some(version) = text_if_kept(judged, Which::Dep, word, VERSION, TextRule::VersionOrEmpty)?
    else {
        return Ok(None);
    };
    let matching = int_field(judged.adb(), Which::Dep, word, MATCHING);
    Ok(dep_of_parts(name, version, matching))
}

// The text of a field of an object; None if the text breaks this rule.
fn text_if_kept<'a>(
    judged: &mut Judged<'a>,
    which: Which,
    object: Val,
    field: usize,
    rule: TextRule,
) -> Result<Option<&'a [u8]>, AllocError>
    // The word is that of an object of the kind `which`, whose field at this index is a text.
    requires sound { is_sound (payload_of judged.old.adb) (Kinds.Obj which) object ≡ true }
    requires kind { kind_at which field ≡ Some Kinds.Text }
    // If a text is returned, it is that of the field.
    ensures text { IfOk result (λ found. IfSome found (λ text. text.now ≡ text_in (entry_at_index
        (value_at (payload_of judged.old.adb) (Kinds.Obj which) object) field))) }
    // A returned text obeys the rule.
    ensures kept { IfOk result (λ found. IfSome found (λ text.
        keeps_text_rule rule text.now ≡ true)) }
    // If none is returned, the text of the field breaks its rule.
    ensures none { IfOk result (λ found. IfNone found (keeps_text_rule rule (text_in (entry_at_index
        (value_at (payload_of judged.old.adb) (Kinds.Obj which) object) field)) ≡ false)) }
    ensures payload { judged.new.adb ≡ judged.old.adb }
{
    let adb = judged.adb();
    let word = field_word(adb, which, object, field);
    let text = text_word(adb, word);
    let is_kept = judged.keeps(rule, word, text)?;
    if is_kept { Ok(Some(text)) } else { Ok(None) }
}
