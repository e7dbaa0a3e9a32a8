//! A checked payload, and the four views of its root. The tests are in `docs/formats.md`, "The
//! texts"; the fields of the roots in "Schemas", tables 7 to 10. The clause `bad` of `Checked::new`
//! says which cause is returned, and the clause `sound` that no text is bad.

ghost use Rattle.std.specs.Prelude.{◌≡◌, ◌<◌, true, is_none, None, IfErr, IfOk};
ghost use Rattle.adb_view.specs.Adb.{payload_of};
ghost use Rattle.adb_view.specs.Values.{is_sound, value_at};
ghost use Rattle.adb_view.specs.ShapedPayload.{shaped_value, table_of};
ghost use Rattle.adb_view.specs.declared.tables.Kind.TheVariants as Kinds;
ghost use Rattle.adb_view.specs.declared.tables.Which.TheVariants as Tables;
ghost use Rattle.adb_schema.specs.Texts.{text_or_number_fault};

use crate::package::PackageView;
use crate::package_info::PkgInfo;
use crate::read::ReadFault;
use crate::text_walk::{check_texts, no_text_is_bad_where_each_keeps_its_rule};
use adb_fields::{Kinded, List, View, objects_field, text_field, texts_field};
use adb_view::field_indexes::{
    IDB_PACKAGES_INDEX, INDEX_DESCRIPTION_INDEX, INDEX_PACKAGES_INDEX, INDEX_PKGNAME_SPEC_INDEX,
    INTENT_REMOVALS_INDEX, INTENT_WRITES_INDEX,
};
use adb_view::{Adb, Shaped, Val, Which, entry_word};
use std::alloc::Global;

/// A payload of the shape of a table, in which each text and number obeys the rule of its field.
#[derive(Clone, Copy)]
pub struct Checked<'a> {
    /// The payload whose shape was tested.
    shaped: Shaped<'a>,
    // Each text and number obeys the rule of its field.
    ghost texts: { is_none (text_or_number_fault (table_of shaped) (shaped_value shaped)) ≡ true },
}

impl<'a> Checked<'a> {
    ghost use Rattle.adb_view.specs.ShapedPayload.{adb_of};
    ghost use Rattle.adb_schema.specs.SoundValues.{ObeysTextAndNumberRulesOfTable};
    ghost use Rattle.adb_schema.specs.Checked.{table_of_checked, checked_value};
    ghost use Rattle.adb_schema.specs.ReadFaults.{IsReadFault};
    ghost use Rattle.adb_schema.specs.Views.{package_value, index_value, idb_value, intent_value};

    /// Tests each text and number of `shaped`, a payload whose shape was tested, by the rule of its
    /// field. Only long texts need memory; each is judged once.
    ///
    /// # Errors
    ///
    /// `Bad` with the cause `BadText` and the number of the first field that breaks its rule, depth
    /// first and field by field. A missing field counts as Null. Or `Memory`.
    pub fn new(alloc: Global, shaped: Shaped<'a>) -> Result<Checked<'a>, ReadFault>
        // The error is the first failed test, or out of memory.
        ensures bad { IfErr result (λ fault.
            IsReadFault fault (text_or_number_fault (table_of shaped.entry)
            (shaped_value shaped.entry))) }
        // On Ok, each text and number obeys the rule of its field.
        ensures sound { IfOk result (λ _.
            text_or_number_fault (table_of shaped.entry) (shaped_value shaped.entry) ≡ None) }
        // On Ok, the table at the root is that of `shaped`.
        ensures which { IfOk result (λ checked. table_of_checked checked ≡ table_of shaped.entry) }
        // On Ok, the value at the root is that of `shaped`.
        ensures value { IfOk result (λ checked. checked_value checked ≡ shaped_value shaped.entry) }
        // On Ok, the payload is that of `shaped`.
        ensures payload { IfOk result (λ checked. adb_of checked.shaped ≡ adb_of shaped.entry) }
    {
        match check_texts(alloc, shaped)? {
            Some(cause) => Err(ReadFault::Bad(cause)),
            None => Ok(Checked { shaped }),
        }
    }

    /// The payload with its table, as known before its texts were tested.
    pub(crate) fn shaped(&self) -> Shaped<'a>
        ensures { result ≡ self.now.shaped }
    {
        self.shaped
    }

    /// Each text and number of a checked payload obeys the rule of its field: a name is a
    /// package's, a version a version.
    pub fn values_keep_their_rules(&self)
        ensures { ObeysTextAndNumberRulesOfTable (table_of_checked self.now)
            (checked_value self.now) }
    {
        no_text_is_bad_where_each_keeps_its_rule();
    }

    /// The package in the payload.
    pub fn package(&self) -> PackageView<'a>
        // The table at the root is that of a package.
        requires { table_of_checked self.now ≡ Tables.Package }
        ensures { package_value result ≡ checked_value self.now }
    {
        let adb = self.shaped.adb();
        PackageView::of(adb, adb.root())
    }

    /// The index in the payload.
    pub fn index(&self) -> IndexView<'a>
        // The table at the root is that of an index.
        requires { table_of_checked self.now ≡ Tables.Index }
        ensures { index_value result ≡ checked_value self.now }
    {
        let adb = self.shaped.adb();
        IndexView::of(adb, adb.root())
    }

    /// The installed database in the payload.
    pub fn idb(&self) -> IdbView<'a>
        // The table at the root is that of a database.
        requires { table_of_checked self.now ≡ Tables.Idb }
        ensures { idb_value result ≡ checked_value self.now }
    {
        let adb = self.shaped.adb();
        IdbView::of(adb, adb.root())
    }

    /// The journal entry in the payload.
    pub fn intent(&self) -> IntentView<'a>
        // The table at the root is that of an intent (journal entry).
        requires { table_of_checked self.now ≡ Tables.Intent }
        ensures { intent_value result ≡ checked_value self.now }
    {
        let adb = self.shaped.adb();
        IntentView::of(adb, adb.root())
    }
}

/// A view of an index of packages (table 8), each of whose texts obeys the rule of its field.
#[derive(Clone, Copy)]
pub struct IndexView<'a> {
    /// The payload that contains the index.
    adb: Adb<'a>,
    /// The word (32-bit reference) of the index in the payload.
    word: u32,
    // The word has a plain value, an index.
    ghost sound: { is_sound (payload_of adb) (Kinds.Obj Tables.Index) word ≡ true },
    // Each text and number of the index obeys the rule of its field.
    ghost texts: { is_none (text_or_number_fault Tables.Index
        (value_at (payload_of adb) (Kinds.Obj Tables.Index) word)) ≡ true },
}

impl<'a> IndexView<'a> {
    ghost use Rattle.adb_view.specs.FieldIndexes.{INDEX_DESCRIPTION_INDEX, INDEX_PACKAGES_INDEX, INDEX_PKGNAME_SPEC_INDEX};
    ghost use Rattle.adb_view.specs.Values.{entry_at_index, text_in};
    ghost use Rattle.adb_schema.specs.SoundValues.{ObeysTextAndNumberRulesOfTable};
    ghost use Rattle.adb_schema.specs.Views.{index_value};
    ghost use Rattle.adb_fields.specs.ListValue.{list_value};

    /// The view of a word that is an index whose texts obey their rules.
    pub fn of(adb: Adb<'a>, word: Val) -> IndexView<'a>
        // The word refers to an index in this payload.
        requires sound { is_sound (payload_of adb) (Kinds.Obj Tables.Index) word ≡ true }
        // Each text and number of the index obeys the rule of its field.
        requires texts { is_none (text_or_number_fault Tables.Index
            (value_at (payload_of adb) (Kinds.Obj Tables.Index) word)) ≡ true }
        // The value of the view is that of the word.
        ensures { index_value result
            ≡ value_at (payload_of adb.entry) (Kinds.Obj Tables.Index) word }
    {
        IndexView {
            adb,
            word: word.word(),
        }
    }

    /// Each text and number of the index obeys the rule of its field: a name is a package's, a
    /// version a version.
    pub fn values_keep_their_rules(&self)
        ensures { ObeysTextAndNumberRulesOfTable Tables.Index (index_value self.now) }
    {
        no_text_is_bad_where_each_keeps_its_rule();
    }

    /// The payload that the index is read from.
    pub fn adb(&self) -> Adb<'a>
        ensures { result ≡ self.now.adb }
    {
        self.adb
    }

    /// The word of the index in the payload.
    pub fn word(&self) -> Val
        // The result is the word of the view.
        ensures is { result ≡ self.now.word }
        // The word refers to an index in the payload of the view.
        ensures sound { is_sound (payload_of self.now.adb) (Kinds.Obj Tables.Index) result
            ≡ true }
    {
        Val::of(self.word)
    }

    /// The description of the index.
    pub fn description(&self) -> &'a [u8]
        ensures { result.now
            ≡ text_in (entry_at_index (index_value self.now) INDEX_DESCRIPTION_INDEX) }
    {
        text_field(
            self.adb,
            Which::Index,
            Val::of(self.word),
            INDEX_DESCRIPTION_INDEX,
        )
    }

    /// The packages of the index, by their information.
    pub fn packages(&self) -> List<'a, PkgInfo<'a>>
        ensures { list_value result ≡ entry_at_index (index_value self.now) INDEX_PACKAGES_INDEX }
    {
        let entries = objects_field(
            self.adb,
            Which::Index,
            Val::of(self.word),
            INDEX_PACKAGES_INDEX,
            Which::PkgInfo,
        );
        List::of(self.adb, entries)
    }

    /// How the files of the index's packages are named: empty, or `${name}-${version}.apk`.
    pub fn pkgname_spec(&self) -> &'a [u8]
        ensures { result.now
            ≡ text_in (entry_at_index (index_value self.now) INDEX_PKGNAME_SPEC_INDEX) }
    {
        text_field(
            self.adb,
            Which::Index,
            Val::of(self.word),
            INDEX_PKGNAME_SPEC_INDEX,
        )
    }
}

/// A view of an installed database (table 9).
#[derive(Clone, Copy)]
pub struct IdbView<'a> {
    /// The payload that contains the database.
    adb: Adb<'a>,
    /// The word (32-bit reference) of the database in the payload.
    word: Val,
    // The word has a plain value, a database.
    ghost sound: { is_sound (payload_of adb) (Kinds.Obj Tables.Idb) word ≡ true },
}

impl<'a> Kinded for IdbView<'a> {
    // What a word of this kind refers to: an installed database.
    ghost kind = { Kinds.Obj Tables.Idb };
}

impl<'a> View<'a> for IdbView<'a> {
    // A view shows the value to which its word refers in its payload.
    ghost shows = { λ view. value_at (payload_of view.adb) (Kinds.Obj Tables.Idb) view.word };

    // The view of a word that is sound as a database.
    fn of(adb: Adb<'a>, word: Val) -> IdbView<'a> {
        IdbView { adb, word }
    }
}

impl<'a> IdbView<'a> {
    ghost use Rattle.adb_view.specs.FieldIndexes.{IDB_PACKAGES_INDEX};
    ghost use Rattle.adb_view.specs.Values.{count_of, entries_in, entry_at_index};
    ghost use Rattle.adb_schema.specs.Views.{idb_value, package_value};
    ghost use Rattle.adb_fields.specs.ListValue.{list_value};

    /// The packages that are installed, in their order.
    pub fn packages(&self) -> List<'a, PackageView<'a>>
        ensures { list_value result ≡ entry_at_index (idb_value self.now) IDB_PACKAGES_INDEX }
    {
        let entries = objects_field(
            self.adb,
            Which::Idb,
            self.word,
            IDB_PACKAGES_INDEX,
            Which::Package,
        );
        List::of(self.adb, entries)
    }

    /// The package at a place, counted from 0, which is read from the payload of the database.
    pub fn package_at(&self, i: usize) -> PackageView<'a>
        // `i` is the index of one of the database's packages.
        requires { i < count_of (entries_in (entry_at_index
            (idb_value self.now) IDB_PACKAGES_INDEX)) }
        // The value is that of entry `i` of the database's packages.
        ensures value { package_value result
            ≡ entry_at_index (entry_at_index (idb_value self.now) IDB_PACKAGES_INDEX) i }
        // The package is in the payload of the database.
        ensures lent { payload_of result.adb ≡ payload_of self.now.adb }
    {
        let entries = objects_field(
            self.adb,
            Which::Idb,
            self.word,
            IDB_PACKAGES_INDEX,
            Which::Package,
        );
        PackageView::at(self.adb, entry_word(entries, i))
    }
}

/// A view of a journal entry (table 10), which names what a change will remove and write.
#[derive(Clone, Copy)]
pub struct IntentView<'a> {
    /// The payload that contains the intent (journal entry).
    adb: Adb<'a>,
    /// The word (32-bit reference) of the intent in the payload.
    word: Val,
    // The word has a plain value, an intent.
    ghost sound: { is_sound (payload_of adb) (Kinds.Obj Tables.Intent) word ≡ true },
}

impl<'a> Kinded for IntentView<'a> {
    // What a word of this kind refers to: an intent (journal entry).
    ghost kind = { Kinds.Obj Tables.Intent };
}

impl<'a> View<'a> for IntentView<'a> {
    // A view shows the value to which its word refers in its payload.
    ghost shows = { λ view. value_at (payload_of view.adb) (Kinds.Obj Tables.Intent) view.word };

    // The view of a word that is sound as a journal entry.
    fn of(adb: Adb<'a>, word: Val) -> IntentView<'a> {
        IntentView { adb, word }
    }
}

impl<'a> IntentView<'a> {
    ghost use Rattle.adb_view.specs.FieldIndexes.{INTENT_REMOVALS_INDEX, INTENT_WRITES_INDEX};
    ghost use Rattle.adb_view.specs.Values.{entry_at_index};
    ghost use Rattle.adb_schema.specs.Views.{intent_value};
    ghost use Rattle.adb_fields.specs.ListValue.{list_value};

    /// The paths of the files that the change removes.
    pub fn removals(&self) -> List<'a, &'a [u8]>
        ensures { list_value result ≡ entry_at_index (intent_value self.now) INTENT_REMOVALS_INDEX }
    {
        List::of(
            self.adb,
            texts_field(self.adb, Which::Intent, self.word, INTENT_REMOVALS_INDEX),
        )
    }

    /// The paths of the files that the change writes.
    pub fn writes(&self) -> List<'a, &'a [u8]>
        ensures { list_value result ≡ entry_at_index (intent_value self.now) INTENT_WRITES_INDEX }
    {
        List::of(
            self.adb,
            texts_field(self.adb, Which::Intent, self.word, INTENT_WRITES_INDEX),
        )
    }
}
