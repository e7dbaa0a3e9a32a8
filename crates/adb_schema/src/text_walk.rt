//! The text walk, which `Checked::new` calls: it tests each number and text of a payload whose
//! shape was tested (`Shaped`) by the rule of its field. The order and the rules are in
//! `docs/formats.md`, "The texts". Each call that borrows a `Judged` leaves the payload of the
//! `Judged` unchanged (clause `payload`), so what is known of its texts stays true.

ghost use Rattle.std.specs.Prelude.{ℕ, List, ◌↔◌, None, ◌≡◌, ◌==◌, ◌*◌, true, false, length, ◌+◌, ◌<◌, ◌≤◌, ◌^◌, IfOk, [], ◌∷◌};
ghost use Rattle.std.specs.Bool.{OnTrue};
ghost use Rattle.adb_view.specs.Adb.{payload_of};
ghost use Rattle.adb_view.specs.Schema.{shape_of, shapes_of, table, table_number};
ghost use Rattle.adb_view.specs.Values.{is_sound, value_at, entries_in, entry_at_index, count_of};
ghost use Rattle.adb_fields.specs.Paths.{path_of};
ghost use Rattle.adb_schema.specs.Rules.{is_name_allowed_in_intent, is_one_part};
ghost use Rattle.adb_schema.specs.Surroundings.{surroundings_of};
ghost use Rattle.adb_schema.specs.TextRules.{text_at};
ghost use Rattle.adb_schema.specs.TextWalk.{IsSameWordAsPrevious, AllowsEachText, AllowsEachValueOfKind, bad_text_at};
ghost use Rattle.adb_view.specs.ShapedPayload.{shaped_value, table_of};
ghost use Rattle.adb_view.specs.Shaped.{Each};
ghost use Rattle.adb_schema.specs.SoundValues.{IsNameAllowedInIntent, ObeysTextAndNumberRulesOfDependency, ObeysTextAndNumberRulesOfFileInFolder, ObeysTextAndNumberRulesOfFolder, ObeysTextAndNumberRulesOfInformation, ObeysTextAndNumberRulesOfPackage, ObeysTextAndNumberRulesOfTable};
ghost use Rattle.adb_schema.specs.Texts.{surroundings_of_root, surroundings_of_fields, is_file_hash_length, is_allowed_file_name, is_package_hash_length, is_file_with_contents, is_path_unreserved_if_in_database, is_file_hash_needed_unless_in_database, is_allowed_number_of_field, is_allowed_text_of_field, leaves_of_all_values, field_leaves, first_bad_leaf, leaves, number_leaf, text_leaf, leaves_of, text_or_number_fault};
ghost use Rattle.adb_schema.specs.FirstBad.{IsFirstBadLeafIfAny};
ghost use Rattle.adb_view.specs.Entries.{array_entries};
ghost use Rattle.adb_fields.specs.Fields.{are_all_sound, values_at};
ghost use Rattle.adb_view.specs.Plain.{Plain};
ghost use Rattle.adb_view.specs.declared.tables.Which.{Which};
ghost use Rattle.adb_view.specs.declared.tables.Kind.TheVariants as Kinds;
ghost use Rattle.adb_view.specs.declared.tables.Which.TheVariants as Tables;

use crate::judged::{Judged, TextRule};
use crate::rules::*;
use adb_fields::{
    hash_word, int_field, int_word, object_words, objects_word, text_field, text_word, texts_word,
    word_or_null,
};
use adb_view::field_indexes::{DIR_NAME_INDEX, FILE_SIZE_INDEX, FILE_TARGET_INDEX};
use adb_view::{Adb, Arr, Kind, Shaped, Val, Which, entry_word, fields_of, number_of};
use base_core::Cause;
use std::alloc::{AllocError, Global};

/// The numbers of the fields that have a rule: 100 times the number of the table plus that of the
/// field in it, which counts from 1 (`docs/formats.md`, "Schemas").
mod field_numbers {
    // A dependency's name.
    pub(crate) const DEP_NAME: u16 = 101;

    // A dependency's version.
    pub(crate) const DEP_VERSION: u16 = 102;

    // A dependency's match number.
    pub(crate) const DEP_MATCH: u16 = 103;

    // A package's name.
    pub(crate) const INFO_NAME: u16 = 301;

    // A package's version.
    pub(crate) const INFO_VERSION: u16 = 302;

    // A package's hash.
    pub(crate) const INFO_HASHES: u16 = 303;

    // A file's name.
    pub(crate) const FILE_NAME: u16 = 401;

    // A file's hash.
    pub(crate) const FILE_HASHES: u16 = 405;

    // A file's target.
    pub(crate) const FILE_TARGET: u16 = 406;

    // A folder's name.
    pub(crate) const DIR_NAME: u16 = 501;

    // How an index names its packages' files.
    pub(crate) const INDEX_PKGNAME_SPEC: u16 = 803;

    // The names that a change removes.
    pub(crate) const INTENT_REMOVALS: u16 = 1001;

    // The names that a change writes.
    pub(crate) const INTENT_WRITES: u16 = 1002;
}

/// Where in a container a value is, as far as the rule of some field depends on it.
#[derive(Clone, Copy)]
pub(crate) struct Surroundings<'a> {
    /// The table of the container's root.
    root: Which,
    /// The path of the folder that the value is in; empty outside of folders, and in the root
    /// folder.
    folder: &'a [u8],
    /// Whether the file that the value is in has contents; false outside of files.
    has_contents: bool,
}

impl<'a> Surroundings<'a> {
    /// The surroundings of the root of a container: no folder and no file.
    pub(crate) fn surroundings_of_root(root: Which) -> Surroundings<'a>
        ensures { surroundings_of result ≡ surroundings_of_root root }
    {
        Surroundings {
            root,
            folder: &[],
            has_contents: false,
        }
    }

    /// The surroundings of the fields of `object`, which is of the table `which`, from those of the
    /// object. A folder sets the path, and a file sets whether there are contents.
    pub(crate) fn inside(&self, adb: Adb<'a>, which: Which, object: Val) -> Surroundings<'a>
        // The word `object` refers to an object of this table.
        requires { is_sound (payload_of adb) (Kinds.Obj which) object ≡ true }
        // The result has the surroundings that the definition gives for these fields.
        ensures { surroundings_of result
            ≡ surroundings_of_fields (table_number which) (surroundings_of self.now)
            (value_at (payload_of adb.entry) (Kinds.Obj which) object) }
    {
        match which {
            Which::Dir => Surroundings {
                root: self.root,
                folder: text_field(adb, Which::Dir, object, DIR_NAME_INDEX),
                has_contents: self.has_contents,
            },
            Which::File => Surroundings {
                root: self.root,
                folder: self.folder,
                has_contents: has_contents(adb, object),
            },
            _ => *self,
        }
    }

    /// Whether a file in the folder of these surroundings may have this name, which has no slash.
    fn takes_file_name(&self, name: &[u8]) -> bool
        requires { is_one_part name.now ≡ true }
        ensures { result ≡ is_allowed_file_name (surroundings_of self.now) name.now }
    {
        fits_in(self.folder, name) && self.is_path_unreserved_if_in_database(name)
    }

    /// Whether the container may list a file of this name in the folder: a database may list none
    /// under a reserved name.
    fn is_path_unreserved_if_in_database(&self, name: &[u8]) -> bool
        ensures { result ≡ is_path_unreserved_if_in_database self.now.root
            (path_of self.now.folder.now name.now) }
    {
        match self.root {
            Which::Idb => !is_reserved_file(self.folder, name),
            _ => true,
        }
    }

    /// Whether a package's hash may have this length in bytes. In an index each package has one.
    fn takes_package_hash(&self, len: usize) -> bool
        ensures { result ≡ is_package_hash_length (surroundings_of self.now).root len }
    {
        match self.root {
            Which::Index => is_id_length(len),
            _ => is_digest_length_or_none(len),
        }
    }

    /// Whether the file's hash may have this length in bytes. A file with contents has a hash,
    /// except in a database.
    fn takes_file_hash(&self, len: usize) -> bool
        ensures { result ≡ is_file_hash_length (surroundings_of self.now) len }
    {
        if self.has_contents && self.root != Which::Idb {
            is_digest_length(len)
        } else {
            is_digest_length_or_none(len)
        }
    }
}

/// Whether a file has contents: no target, and a size above 0.
fn has_contents(adb: Adb<'_>, file: Val) -> bool
    // The word `file` refers to the entry of a file.
    requires { is_sound (payload_of adb) (Kinds.Obj Tables.File) file ≡ true }
    ensures { result
        ≡ is_file_with_contents (value_at (payload_of adb.entry) (Kinds.Obj Tables.File) file) }
{
    let target = text_field(adb, Which::File, file, FILE_TARGET_INDEX);
    target.is_empty() && int_field(adb, Which::File, file, FILE_SIZE_INDEX) > 0
}

/// Whether a number obeys the rule of the field with this number; only the match number of a
/// dependency has one.
pub(crate) fn keeps_number_rule(field_place_in_causes: u16, n: u64) -> bool
    ensures { result ≡ is_allowed_number_of_field field_place_in_causes n }
{
    match field_place_in_causes {
        field_numbers::DEP_MATCH => is_match_number(n),
        _ => true,
    }
}

/// Whether the text of a word obeys the rule of the field with this number; fields that are not
/// listed here have no rule. `judged` knows of long texts which rules they obey.
#[tactic(auto, unfolding(crate::specs::Texts::is_allowed_text_of_field))]
fn keeps_rule_of_field(
    judged: &mut Judged<'_>,
    field_place_in_causes: u16,
    around: &Surroundings<'_>,
    word: Val,
    text: &[u8],
) -> Result<bool, AllocError>
    // `text` is the text of the word.
    requires { text.now ≡ text_at (payload_of judged.old.adb) word }
    // On Ok, the result says whether the text obeys the rule of the field.
    ensures value { IfOk result (λ kept.
        kept ≡ is_allowed_text_of_field field_place_in_causes
        (surroundings_of around.now) text.now) }
    // The payload of `judged` is unchanged.
    ensures payload { judged.new.adb ≡ judged.old.adb }
{
    match field_place_in_causes {
        field_numbers::DEP_NAME => judged.keeps(TextRule::DependencyName, word, text),
        field_numbers::DEP_VERSION => judged.keeps(TextRule::VersionOrEmpty, word, text),
        field_numbers::INFO_NAME => judged.keeps(TextRule::PackageName, word, text),
        field_numbers::INFO_VERSION => judged.keeps(TextRule::Version, word, text),
        field_numbers::INFO_HASHES => Ok(around.takes_package_hash(text.len())),
        field_numbers::FILE_NAME => keeps_file_name(judged, around, word, text),
        field_numbers::FILE_HASHES => Ok(around.takes_file_hash(text.len())),
        field_numbers::FILE_TARGET => judged.keeps(TextRule::Target, word, text),
        field_numbers::DIR_NAME => judged.keeps(TextRule::FolderName, word, text),
        field_numbers::INDEX_PKGNAME_SPEC => Ok(is_supported_pkgname_spec(text)),
        field_numbers::INTENT_REMOVALS | field_numbers::INTENT_WRITES => {
            keeps_change_name(judged, word, text)
        }
        _ => Ok(true),
    }
}

/// Whether the text of a word is an allowed name for a file of the folder.
fn keeps_file_name(
    judged: &mut Judged<'_>,
    around: &Surroundings<'_>,
    word: Val,
    text: &[u8],
) -> Result<bool, AllocError>
    // `text` is the text of the word.
    requires { text.now ≡ text_at (payload_of judged.old.adb) word }
    // On Ok, the result says whether the text is an allowed file name in this folder.
    ensures value { IfOk result (λ kept.
        kept ≡ is_allowed_file_name (surroundings_of around.now) text.now) }
    // The payload of `judged` is unchanged.
    ensures payload { judged.new.adb ≡ judged.old.adb }
{
    if !judged.keeps(TextRule::OnePart, word, text)? {
        return Ok(false);
    }
    Ok(around.takes_file_name(text))
}

/// Whether a change may remove or write the text of a word: a path, but none of the journal or of
/// the staging area.
fn keeps_change_name(judged: &mut Judged<'_>, word: Val, text: &[u8]) -> Result<bool, AllocError>
    // `text` is the text of the word.
    requires { text.now ≡ text_at (payload_of judged.old.adb) word }
    // On Ok, the result says whether a change may remove or write a file of this name.
    ensures value { IfOk result (λ kept. kept ≡ is_name_allowed_in_intent text.now) }
    // The payload of `judged` is unchanged.
    ensures payload { judged.new.adb ≡ judged.old.adb }
{
    if !judged.keeps(TextRule::Name, word, text)? {
        return Ok(false);
    }
    Ok(!is_intent_or_stage_name(text))
}

/// Tests each text and number of `shaped` by the rule of its field, depth first and field by field.
/// It returns the cause `BadText` with the number of the first field that breaks its rule. It
/// returns None if and only if each text and number obeys the rule of its field. A missing field
/// counts as Null. A text of more than 64 bytes is judged once, however many places share it.
pub fn check_texts(alloc: Global, shaped: Shaped<'_>) -> Result<Option<Cause>, AllocError>
    // On Ok, the result is the cause for the first text or number that breaks its rule, or None.
    ensures { IfOk result (λ cause. cause
        ≡ text_or_number_fault (table_of shaped.entry) (shaped_value shaped.entry)) }
{
    let adb = shaped.adb();
    let which = shaped.which();
    let mut judged = Judged::new(alloc, adb);
    let around = Surroundings::surroundings_of_root(which);
    // The root is no field of an object, so its field number is 0, which no rule uses.
    match check_value(adb, &mut judged, Kind::Obj(which), 0, &around, adb.root())? {
        Some(place) => Ok(Some(Cause::BadText { place })),
        None => Ok(None),
    }
}

/// Checks a value and the values inside it, and returns the number of the first field that breaks
/// its rule. The value has the word `word`, the kind `kind`, and the surroundings `around`. It is
/// in the field with the number `field_place_in_causes`. `judged` remembers long texts. (A cause
/// has 150 bytes, too many to pass from value to value.)
#[cycle(check)]
fn check_value<'a>(
    adb: Adb<'a>,
    judged: &mut Judged<'a>,
    kind: Kind,
    field_place_in_causes: u16,
    around: &Surroundings<'a>,
    word: Val,
) -> Result<Option<u16>, AllocError>
    // The word refers to a value of this kind.
    requires sound { is_sound (payload_of adb) kind word ≡ true }
    // `judged` is about the same payload as `adb`.
    requires payload { payload_of judged.old.adb ≡ payload_of adb }
    // On Ok, the result is the number of the first field whose rule is broken, or None.
    ensures place { IfOk result (λ place. bad_text_at place
        ≡ first_bad_leaf (leaves (shape_of kind) field_place_in_causes (surroundings_of around.now)
        (value_at (payload_of adb.entry) kind word))) }
    // The payload of `judged` is unchanged.
    ensures payload { judged.new.adb ≡ judged.old.adb }
{
    match kind {
        Kind::Int => Ok(check_number(field_place_in_causes, int_word(adb, word))),
        Kind::Text => check_text(
            judged,
            field_place_in_causes,
            around,
            word,
            text_word(adb, word),
        ),
        Kind::Hash => check_text(
            judged,
            field_place_in_causes,
            around,
            word,
            hash_word(adb, word),
        ),
        Kind::TextArr => {
            let texts = texts_word(adb, word);
            check_entries(
                adb,
                judged,
                Kind::Text,
                field_place_in_causes,
                around,
                texts,
            )
        }
        Kind::ObjArr(which) => {
            let objects = objects_word(adb, which, word);
            check_entries(
                adb,
                judged,
                Kind::Obj(which),
                field_place_in_causes,
                around,
                objects,
            )
        }
        Kind::Obj(which) => {
            let inside = around.inside(adb, which, word);
            check_fields(adb, judged, which, &inside, word)
        }
    }
}

/// Checks the entries of an array, as `check_value` does for one value. Of adjacent equal words it
/// checks only the first. Each entry has the kind `kind`, and the array is in the field with the
/// number `field_place_in_causes`.
#[cycle(check)]
fn check_entries<'a>(
    adb: Adb<'a>,
    judged: &mut Judged<'a>,
    kind: Kind,
    field_place_in_causes: u16,
    around: &Surroundings<'a>,
    entries: Arr<'a>,
) -> Result<Option<u16>, AllocError>
    // Each entry is a word that refers to a value of this kind.
    requires sound { are_all_sound (payload_of adb) kind (array_entries entries) ≡ true }
    // `judged` is about the same payload as `adb`.
    requires payload { payload_of judged.old.adb ≡ payload_of adb }
    // On Ok, the result is the number of the first field whose rule is broken, or None.
    ensures place { IfOk result (λ place. bad_text_at place
        ≡ first_bad_leaf (leaves_of_all_values (leaves (shape_of kind) field_place_in_causes
        (surroundings_of around.now))
        (values_at (payload_of adb.entry) kind (array_entries entries.entry)))) }
    // The payload of `judged` is unchanged.
    ensures payload { judged.new.adb ≡ judged.old.adb }
{
    for i in 0..entries.len() {
        if is_same_as_before(entries, i) {
            continue;
        }
        let word = entry_word(entries, i);
        if let Some(place) = check_value(adb, judged, kind, field_place_in_causes, around, word)? {
            return Ok(Some(place));
        }
    }
    Ok(None)
}

/// Whether an entry is the same word as the one before it.
fn is_same_as_before(entries: Arr<'_>, i: usize) -> bool
    // The index is that of an entry.
    requires { i < length (array_entries entries) }
    ensures { OnTrue result (IsSameWordAsPrevious (array_entries entries.entry) i) }
{
    if i == 0 {
        return false;
    }
    entry_word(entries, i - 1).word() == entry_word(entries, i).word()
}

/// Checks those fields of an object that have a rule, or that contain a field with a rule. `around`
/// has the surroundings of these fields.
#[cycle(check)]
fn check_fields<'a>(
    adb: Adb<'a>,
    judged: &mut Judged<'a>,
    which: Which,
    around: &Surroundings<'a>,
    object: Val,
) -> Result<Option<u16>, AllocError>
    // The word `object` refers to an object of this table.
    requires sound { is_sound (payload_of adb) (Kinds.Obj which) object ≡ true }
    // `judged` is about the same payload as `adb`.
    requires payload { payload_of judged.old.adb ≡ payload_of adb }
    // On Ok, the result is the number of the first field whose rule is broken, or None.
    ensures place { IfOk result (λ place. bad_text_at place
        ≡ first_bad_leaf (field_leaves (shapes_of (table which)) (100 * table_number which + 1)
        (surroundings_of around.now)
        (entries_in (value_at (payload_of adb.entry) (Kinds.Obj which) object)))) }
    // The payload of `judged` is unchanged.
    ensures payload { judged.new.adb ≡ judged.old.adb }
{
    let words = object_words(adb, which, object);
    // The number of the field before the next one. The fields of a table count from 1.
    let mut field_place_in_causes = 100 * number_of(which);
    for (i, field) in fields_of(which).iter().enumerate() {
        field_place_in_causes += 1;
        if !has_rule(field.kind, field_place_in_causes) {
            continue;
        }
        let word = word_or_null(words, i);
        if let Some(place) = check_value(
            adb,
            judged,
            field.kind,
            field_place_in_causes,
            around,
            word,
        )? {
            return Ok(Some(place));
        }
    }
    Ok(None)
}

/// Whether a value of this kind in this field may break a rule: the field, or a field below it, has
/// one.
fn has_rule(kind: Kind, field_place_in_causes: u16) -> bool
    // False is returned only if no value of the kind breaks a rule in this field.
    ensures { result ≡ false → AllowsEachValueOfKind kind field_place_in_causes }
{
    match kind {
        Kind::Int => field_place_in_causes == field_numbers::DEP_MATCH,
        Kind::Text => has_text_rule(field_place_in_causes),
        Kind::Hash => has_text_rule(field_place_in_causes),
        Kind::TextArr => has_text_rule(field_place_in_causes),
        Kind::Obj(which) => has_rule_below(which),
        // Each array of objects is checked, whatever its table.
        Kind::ObjArr(_) => true,
    }
}

/// Whether the objects of a table may break a rule.
fn has_rule_below(which: Which) -> bool
    // False is returned only if no object of the table breaks a rule, in any field.
    ensures { result ≡ false → (field_place_in_causes : ℕ)
        → AllowsEachValueOfKind (Kinds.Obj which) field_place_in_causes }
{
    match which {
        // No field of these two tables has a rule.
        Which::Acl => false,
        Which::Scripts => false,
        // Each other table has a field with a rule, or a field that contains such a field.
        _ => true,
    }
}

/// Whether there is a rule for the texts of a field.
#[tactic(auto, unfolding(crate::specs::Texts::is_allowed_text_of_field))]
fn has_text_rule(field_place_in_causes: u16) -> bool
    // False is returned only if the field allows each text.
    ensures { result ≡ false → AllowsEachText field_place_in_causes }
{
    matches!(
        field_place_in_causes,
        field_numbers::DEP_NAME
            | field_numbers::DEP_VERSION
            | field_numbers::INFO_NAME
            | field_numbers::INFO_VERSION
            | field_numbers::INFO_HASHES
            | field_numbers::FILE_NAME
            | field_numbers::FILE_HASHES
            | field_numbers::FILE_TARGET
            | field_numbers::DIR_NAME
            | field_numbers::INDEX_PKGNAME_SPEC
            | field_numbers::INTENT_REMOVALS
            | field_numbers::INTENT_WRITES
    )
}

/// Checks the number `n`, and returns `field_place_in_causes` if `n` breaks the rule of this field.
fn check_number(field_place_in_causes: u16, n: u64) -> Option<u16>
    ensures { bad_text_at result ≡ first_bad_leaf (number_leaf field_place_in_causes n ∷ []) }
{
    if keeps_number_rule(field_place_in_causes, n) {
        None
    } else {
        Some(field_place_in_causes)
    }
}

/// Checks the text of a word, and returns `field_place_in_causes` if the text breaks the rule of
/// this field.
fn check_text(
    judged: &mut Judged<'_>,
    field_place_in_causes: u16,
    around: &Surroundings<'_>,
    word: Val,
    text: &[u8],
) -> Result<Option<u16>, AllocError>
    // `text` is the text of the word.
    requires { text.now ≡ text_at (payload_of judged.old.adb) word }
    // On Ok, the result is the number of the first field whose rule is broken, or None.
    ensures place { IfOk result (λ place. bad_text_at place
        ≡ first_bad_leaf (text_leaf field_place_in_causes
        (surroundings_of around.now) text.now ∷ [])) }
    // The payload of `judged` is unchanged.
    ensures payload { judged.new.adb ≡ judged.old.adb }
{
    if keeps_rule_of_field(judged, field_place_in_causes, around, word, text)? {
        Ok(None)
    } else {
        Ok(Some(field_place_in_causes))
    }
}

/// A law: the cause from the text walk is that of the first text or number that breaks the rule of
/// its field, depth first and field by field. There is no cause if and only if each obeys its rule.
pub fn the_first_bad_text_is_reported()
    // A cause is that of the first bad leaf (text or number); without a cause no leaf is bad.
    ensures { (which : Which) (value : Plain)
        → IsFirstBadLeafIfAny (leaves_of which value) (text_or_number_fault which value) }
{}

/// A law: the text walk reports no fault in a value if and only if each text and number in the
/// value obeys the rule of its field. *ObeysTextAndNumberRulesOfTable* states the rules for each
/// table.
pub fn no_text_is_bad_where_each_keeps_its_rule()
    // No fault is reported if and only if the value obeys the rules of its table.
    ensures { (which : Which) (value : Plain) → (text_or_number_fault which value ≡ None)
        ↔ ObeysTextAndNumberRulesOfTable which value }
{}

/// A law: each entry of a list obeys the rule that all entries of the list obey, for each kind of
/// entries. Entries count from 0; `root` is the table of the container, and `folder` the name of
/// the file's folder.
pub fn entries_keep_the_rule_of_their_list()
    // For a list of dependencies.
    ensures dependency { (list : Plain) (i : ℕ)
        → Each ObeysTextAndNumberRulesOfDependency (entries_in list)
        → i < count_of (entries_in list)
        → ObeysTextAndNumberRulesOfDependency (entry_at_index list i) }
    // For a list of packages' information.
    ensures information { (root : Which) (list : Plain) (i : ℕ)
        → Each (ObeysTextAndNumberRulesOfInformation root) (entries_in list)
        → i < count_of (entries_in list)
        → ObeysTextAndNumberRulesOfInformation root (entry_at_index list i) }
    // For a list of the files of a folder.
    ensures file { (root : Which) (folder : List ℕ) (list : Plain) (i : ℕ)
        → Each (ObeysTextAndNumberRulesOfFileInFolder root folder) (entries_in list)
        → i < count_of (entries_in list)
        → ObeysTextAndNumberRulesOfFileInFolder root folder (entry_at_index list i) }
    // For a list of folders.
    ensures folder { (root : Which) (list : Plain) (i : ℕ)
        → Each (ObeysTextAndNumberRulesOfFolder root) (entries_in list)
        → i < count_of (entries_in list)
        → ObeysTextAndNumberRulesOfFolder root (entry_at_index list i) }
    // For a list of packages.
    ensures package { (root : Which) (list : Plain) (i : ℕ)
        → Each (ObeysTextAndNumberRulesOfPackage root) (entries_in list)
        → i < count_of (entries_in list)
        → ObeysTextAndNumberRulesOfPackage root (entry_at_index list i) }
    // For a list of names in an intent (journal entry).
    ensures change_name { (list : Plain) (i : ℕ)
        → Each IsNameAllowedInIntent (entries_in list) → i < count_of (entries_in list)
        → IsNameAllowedInIntent (entry_at_index list i) }
{}
