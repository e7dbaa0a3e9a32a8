//! Copies the information of a package, value by value. The rules are in `docs/formats.md`: "The
//! database after a change" (its id and its length; an integer 0 is NULL) and "Schemas", table 3
//! (its fields in their order) and table 1 (those of a dependency).
ghost use Rattle.std.specs.Prelude.{◌≡◌, true, Some, OnOk};
ghost use Rattle.adb_fields.specs.Fields.{are_all_sound, array_at};
ghost use Rattle.adb_view.specs.Values.{entry_at_index, is_sound, kind_at, value_at};
ghost use Rattle.adb_view.specs.declared.tables.Kind.TheVariants as Kinds;
ghost use Rattle.adb_view.specs.declared.tables.Which.TheVariants as Tables;
ghost use Rattle.adb_values.specs.Drafts.{draft_with, draft_with_all};
ghost use Rattle.adb_copy.specs.Zeros.{int_or_null, without_zeros, info_without_zeros_with_id_and_file_size};
ghost use Rattle.adb_copy.specs.Fields.{info_texts, ints_or_nulls};
ghost use Rattle.adb_copy.specs.Known.{AreRememberedBlobsOfDraft};
ghost use Rattle.adb_view.specs.Adb.{payload_of};
ghost use Rattle.adb_view.specs.Entries.{array_entries};
ghost use Rattle.adb_view.specs.Plain.{plains_of_texts};

use crate::known_texts::KnownTexts;
use adb_fields::{hash_field, int_field, objects_field, texts_field};
use adb_values::Draft;
use adb_view::field_indexes::{
    DEP_MATCH_INDEX, DEP_NAME_INDEX, DEP_VERSION_INDEX, INFO_ARCH_INDEX, INFO_BUILD_TIME_INDEX,
    INFO_DEPENDS_INDEX, INFO_DESCRIPTION_INDEX, INFO_INSTALL_IF_INDEX, INFO_INSTALLED_SIZE_INDEX,
    INFO_LAYER_INDEX, INFO_LICENSE_INDEX, INFO_MAINTAINER_INDEX, INFO_NAME_INDEX,
    INFO_ORIGIN_INDEX, INFO_PROVIDER_PRIORITY_INDEX, INFO_PROVIDES_INDEX, INFO_RECOMMENDS_INDEX,
    INFO_REPLACES_INDEX, INFO_REPO_COMMIT_INDEX, INFO_TAGS_INDEX, INFO_UNUSED_INDEX,
    INFO_URL_INDEX, INFO_VERSION_INDEX,
};
use adb_view::{Adb, Arr, Val, Which, entry_word, values_have_their_shape};
use std::alloc::AllocError;

/// Copies the information of a package to `draft`: the value of the word `info` in the payload
/// `adb`. The copy has `id` as its field `hashes`, and `len` as its field `file-size`. An integer 0
/// becomes NULL. `known` has the long texts that the draft already contains.
pub fn write_info(
    draft: &mut Draft,
    adb: Adb<'_>,
    known: &mut KnownTexts,
    info: Val,
    id: &[u8],
    len: u64,
) -> Result<(), AllocError>
    // The word `info` has a plain value: the information of a package.
    requires sound { is_sound (payload_of adb) (Kinds.Obj Tables.PkgInfo) info ≡ true }
    // Each text that `known` remembers is a blob of the draft, with the remembered word.
    // Each remembered range has its period.
    requires known { AreRememberedBlobsOfDraft (payload_of adb) draft.old known.old }
    // On Ok, the draft gets the information, with `id`, `len`, and NULL for each integer 0.
    ensures info { OnOk result (draft.new ≡ draft_with (info_without_zeros_with_id_and_file_size
        (value_at (payload_of adb.entry) (Kinds.Obj Tables.PkgInfo) info) id.now len) draft.old) }
    // On Ok, each text that `known` remembers is a blob of the new draft, with that word. Each
    // remembered range has its period.
    ensures known { OnOk result (AreRememberedBlobsOfDraft
        (payload_of adb.entry) draft.new known.new) }
{
    // A law for the proof: a value has the shape of its table. The call does nothing at run time.
    values_have_their_shape();
    draft.open_list()?;
    write_info_texts(draft, adb, known, info, id)?;
    write_ints(
        draft,
        &[
            int_field(adb, Which::PkgInfo, info, INFO_BUILD_TIME_INDEX),
            int_field(adb, Which::PkgInfo, info, INFO_INSTALLED_SIZE_INDEX),
            // The field `file-size`.
            len,
            int_field(adb, Which::PkgInfo, info, INFO_PROVIDER_PRIORITY_INDEX),
        ],
    )?;
    write_deps(draft, adb, known, info, INFO_DEPENDS_INDEX)?;
    write_deps(draft, adb, known, info, INFO_PROVIDES_INDEX)?;
    write_deps(draft, adb, known, info, INFO_REPLACES_INDEX)?;
    write_deps(draft, adb, known, info, INFO_INSTALL_IF_INDEX)?;
    write_deps(draft, adb, known, info, INFO_RECOMMENDS_INDEX)?;
    write_int(
        draft,
        int_field(adb, Which::PkgInfo, info, INFO_LAYER_INDEX),
    )?;
    write_text_list(
        draft,
        adb,
        known,
        texts_field(adb, Which::PkgInfo, info, INFO_TAGS_INDEX),
    )?;
    write_int(
        draft,
        int_field(adb, Which::PkgInfo, info, INFO_UNUSED_INDEX),
    )?;
    draft.close_object()
}

/// Writes the first ten fields of a package's information, which are texts and hashes. `id` is
/// written as the field `hashes`.
fn write_info_texts(
    draft: &mut Draft,
    adb: Adb<'_>,
    known: &mut KnownTexts,
    info: Val,
    id: &[u8],
) -> Result<(), AllocError>
    // The word `info` has a plain value: the information of a package.
    requires sound { is_sound (payload_of adb) (Kinds.Obj Tables.PkgInfo) info ≡ true }
    // Each text that `known` remembers is a blob of the draft, with the remembered word.
    // Each remembered range has its period.
    requires known { AreRememberedBlobsOfDraft (payload_of adb) draft.old known.old }
    // On Ok, the draft gets these ten fields, in order.
    ensures texts { OnOk result (draft.new ≡ draft_with_all (plains_of_texts (info_texts
        (value_at (payload_of adb.entry) (Kinds.Obj Tables.PkgInfo) info) id.now)) draft.old) }
    // On Ok, each text that `known` remembers is a blob of the new draft, with that word. Each
    // remembered range has its period.
    ensures known { OnOk result (AreRememberedBlobsOfDraft
        (payload_of adb.entry) draft.new known.new) }
{
    known.write_field(draft, adb, Which::PkgInfo, info, INFO_NAME_INDEX)?;
    known.write_field(draft, adb, Which::PkgInfo, info, INFO_VERSION_INDEX)?;
    draft.blob(id)?;
    known.write_field(draft, adb, Which::PkgInfo, info, INFO_DESCRIPTION_INDEX)?;
    known.write_field(draft, adb, Which::PkgInfo, info, INFO_ARCH_INDEX)?;
    known.write_field(draft, adb, Which::PkgInfo, info, INFO_LICENSE_INDEX)?;
    known.write_field(draft, adb, Which::PkgInfo, info, INFO_ORIGIN_INDEX)?;
    known.write_field(draft, adb, Which::PkgInfo, info, INFO_MAINTAINER_INDEX)?;
    known.write_field(draft, adb, Which::PkgInfo, info, INFO_URL_INDEX)?;
    draft.blob(hash_field(adb, Which::PkgInfo, info, INFO_REPO_COMMIT_INDEX))
}

/// Writes integers one after another; 0 is NULL.
fn write_ints(draft: &mut Draft, ints: &[u64]) -> Result<(), AllocError>
    // On Ok, the draft gets each integer, or NULL for 0, in order.
    ensures { OnOk result (draft.new ≡ draft_with_all (ints_or_nulls ints.now) draft.old) }
{
    for n in ints {
        write_int(draft, *n)?;
    }
    Ok(())
}

/// Writes an integer; 0 is NULL.
pub fn write_int(draft: &mut Draft, n: u64) -> Result<(), AllocError>
    // On Ok, the draft gets the integer, or NULL for 0.
    ensures { OnOk result (draft.new ≡ draft_with (int_or_null n) draft.old) }
{
    if n == 0 {
        return draft.null();
    }
    draft.int(n)
}

/// Writes an array of texts to the draft. `texts` has the words of the texts in the payload `adb`.
/// `known` has the long texts that the draft already contains.
pub fn write_text_list<'a>(
    draft: &mut Draft,
    adb: Adb<'a>,
    known: &mut KnownTexts,
    texts: Arr<'a>,
) -> Result<(), AllocError>
    // Each entry has a plain value of the kind that the array demands.
    requires sound { are_all_sound (payload_of adb) Kinds.Text (array_entries texts) ≡ true }
    // Each text that `known` remembers is a blob of the draft, with the remembered word.
    // Each remembered range has its period.
    requires known { AreRememberedBlobsOfDraft (payload_of adb) draft.old known.old }
    // On Ok, the draft gets the array of these texts, or NULL if there are none.
    ensures texts { OnOk result (draft.new ≡ draft_with (without_zeros
        (array_at (payload_of adb.entry) Kinds.Text (array_entries texts.entry))) draft.old) }
    // On Ok, each text that `known` remembers is a blob of the new draft, with that word. Each
    // remembered range has its period.
    ensures known { OnOk result (AreRememberedBlobsOfDraft
        (payload_of adb.entry) draft.new known.new) }
{
    // A law for the proof: a value has the shape of its table. The call does nothing at run time.
    values_have_their_shape();
    draft.open_list()?;
    for i in 0..texts.len() {
        known.write(draft, adb, entry_word(texts, i))?;
    }
    draft.close_array()
}

/// Writes the array of dependencies that is a field of a package's information. `field` is the
/// index of this field, counted from 0.
fn write_deps(
    draft: &mut Draft,
    adb: Adb<'_>,
    known: &mut KnownTexts,
    info: Val,
    field: usize,
) -> Result<(), AllocError>
    // The word `info` has a plain value: the information of a package.
    requires sound { is_sound (payload_of adb) (Kinds.Obj Tables.PkgInfo) info ≡ true }
    // The field is an array of dependencies.
    requires kind { kind_at Tables.PkgInfo field ≡ Some (Kinds.ObjArr Tables.Dep) }
    // Each text that `known` remembers is a blob of the draft, with the remembered word.
    // Each remembered range has its period.
    requires known { AreRememberedBlobsOfDraft (payload_of adb) draft.old known.old }
    // On Ok, the draft gets the array, in which each integer 0 is NULL.
    ensures deps { OnOk result (draft.new ≡ draft_with (without_zeros (entry_at_index
        (value_at (payload_of adb.entry) (Kinds.Obj Tables.PkgInfo) info) field)) draft.old) }
    // On Ok, each text that `known` remembers is a blob of the new draft, with that word. Each
    // remembered range has its period.
    ensures known { OnOk result (AreRememberedBlobsOfDraft
        (payload_of adb.entry) draft.new known.new) }
{
    let deps = objects_field(adb, Which::PkgInfo, info, field, Which::Dep);
    write_dep_list(draft, adb, known, deps)
}

/// Writes an array of dependencies to the draft. `deps` has the words of the dependencies in the
/// payload `adb`.
fn write_dep_list<'a>(
    draft: &mut Draft,
    adb: Adb<'a>,
    known: &mut KnownTexts,
    deps: Arr<'a>,
) -> Result<(), AllocError>
    // Each entry has a plain value of the kind that the array demands.
    requires sound { are_all_sound (payload_of adb) (Kinds.Obj Tables.Dep) (array_entries deps)
        ≡ true }
    // Each text that `known` remembers is a blob of the draft, with the remembered word.
    // Each remembered range has its period.
    requires known { AreRememberedBlobsOfDraft (payload_of adb) draft.old known.old }
    // On Ok, the draft gets the array, in which each integer 0 is NULL.
    ensures deps { OnOk result (draft.new ≡ draft_with (without_zeros (array_at
        (payload_of adb.entry) (Kinds.Obj Tables.Dep) (array_entries deps.entry))) draft.old) }
    // On Ok, each text that `known` remembers is a blob of the new draft, with that word. Each
    // remembered range has its period.
    ensures known { OnOk result (AreRememberedBlobsOfDraft
        (payload_of adb.entry) draft.new known.new) }
{
    // A law for the proof: a value has the shape of its table. The call does nothing at run time.
    values_have_their_shape();
    draft.open_list()?;
    for i in 0..deps.len() {
        write_dep(draft, adb, known, entry_word(deps, i))?;
    }
    draft.close_array()
}

/// Writes a dependency to the draft: the value of the word `dep` in the payload `adb`.
fn write_dep(
    draft: &mut Draft,
    adb: Adb<'_>,
    known: &mut KnownTexts,
    dep: Val,
) -> Result<(), AllocError>
    // The word `dep` has a plain value: a dependency.
    requires sound { is_sound (payload_of adb) (Kinds.Obj Tables.Dep) dep ≡ true }
    // Each text that `known` remembers is a blob of the draft, with the remembered word.
    // Each remembered range has its period.
    requires known { AreRememberedBlobsOfDraft (payload_of adb) draft.old known.old }
    // On Ok, the draft gets the dependency, in which each integer 0 is NULL.
    ensures dep { OnOk result (draft.new ≡ draft_with (without_zeros
        (value_at (payload_of adb.entry) (Kinds.Obj Tables.Dep) dep)) draft.old) }
    // On Ok, each text that `known` remembers is a blob of the new draft, with that word. Each
    // remembered range has its period.
    ensures known { OnOk result (AreRememberedBlobsOfDraft
        (payload_of adb.entry) draft.new known.new) }
{
    // A law for the proof: a value has the shape of its table. The call does nothing at run time.
    values_have_their_shape();
    draft.open_list()?;
    known.write_field(draft, adb, Which::Dep, dep, DEP_NAME_INDEX)?;
    known.write_field(draft, adb, Which::Dep, dep, DEP_VERSION_INDEX)?;
    write_int(draft, int_field(adb, Which::Dep, dep, DEP_MATCH_INDEX))?;
    draft.close_object()
}
