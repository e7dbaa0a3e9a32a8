//! Copies files and their access lists, and scripts, value by value. The rules are in
//! `docs/formats.md`: "The database after a change" (a file in a database; an integer 0 is NULL)
//! and "Schemas", tables 2, 4 and 6 (the fields in their order).
ghost use Rattle.adb_copy.specs.Known.{AreRememberedBlobsOfDraft};
ghost use Rattle.adb_copy.specs.Zeros.{without_zeros};
ghost use Rattle.adb_view.specs.Values.{is_sound, value_at};
ghost use Rattle.adb_view.specs.declared.tables.Kind.TheVariants as Kinds;
ghost use Rattle.adb_view.specs.declared.tables.Which.TheVariants as Tables;
ghost use Rattle.adb_values.specs.Drafts.{draft_with};
ghost use Rattle.adb_view.specs.Adb.{payload_of};
ghost use Rattle.std.specs.Prelude.{◌≡◌, true, OnOk};

use crate::copy::{write_int, write_text_list};
use crate::known_texts::KnownTexts;
use adb_fields::{field_word, hash_field, int_field, texts_field};
use adb_values::Draft;
use adb_view::field_indexes::{
    ACL_GROUP_INDEX, ACL_MODE_INDEX, ACL_USER_INDEX, ACL_XATTRS_INDEX, FILE_ACL_INDEX,
    FILE_HASHES_INDEX, FILE_MTIME_INDEX, FILE_NAME_INDEX, FILE_SIZE_INDEX, FILE_TARGET_INDEX,
    FILE_UNUSED_INDEX, SCRIPTS_POST_DEINSTALL_INDEX, SCRIPTS_POST_INSTALL_INDEX,
    SCRIPTS_POST_UPGRADE_INDEX, SCRIPTS_PRE_DEINSTALL_INDEX, SCRIPTS_PRE_INSTALL_INDEX,
    SCRIPTS_PRE_UPGRADE_INDEX, SCRIPTS_TRIGGER_INDEX,
};
use adb_view::{Adb, Val, Which, values_have_their_shape};
use std::alloc::AllocError;

/// Copies an access list to the draft: the value of the word `acl` in the payload `adb`. `known`
/// has the long texts that the draft already contains.
pub fn write_acl(
    draft: &mut Draft,
    adb: Adb<'_>,
    known: &mut KnownTexts,
    acl: Val,
) -> Result<(), AllocError>
    // The word `acl` has a plain value: an access list.
    requires sound { is_sound (payload_of adb) (Kinds.Obj Tables.Acl) acl ≡ true }
    // Each text that `known` remembers is a blob of the draft, with the remembered word.
    // Each remembered range has its period.
    requires known { AreRememberedBlobsOfDraft (payload_of adb) draft.old known.old }
    // On Ok, the draft gets the access list, in which each integer 0 is NULL.
    ensures acl { OnOk result (draft.new ≡ draft_with (without_zeros
        (value_at (payload_of adb.entry) (Kinds.Obj Tables.Acl) acl)) draft.old) }
    // On Ok, each text that `known` remembers is a blob of the new draft, with that word. Each
    // remembered range has its period.
    ensures known { OnOk result (AreRememberedBlobsOfDraft
        (payload_of adb.entry) draft.new known.new) }
{
    // A law for the proof: a value has the shape of its table. The call does nothing at run time.
    values_have_their_shape();
    draft.open_list()?;
    write_int(draft, int_field(adb, Which::Acl, acl, ACL_MODE_INDEX))?;
    known.write_field(draft, adb, Which::Acl, acl, ACL_USER_INDEX)?;
    known.write_field(draft, adb, Which::Acl, acl, ACL_GROUP_INDEX)?;
    write_text_list(
        draft,
        adb,
        known,
        texts_field(adb, Which::Acl, acl, ACL_XATTRS_INDEX),
    )?;
    draft.close_object()
}

/// Copies the entry of a file to the draft: the value of the word `file` in the payload `adb`. The
/// entry has a name, access list, size, time, hash and target, but not the file's contents.
pub fn write_file(
    draft: &mut Draft,
    adb: Adb<'_>,
    known: &mut KnownTexts,
    file: Val,
) -> Result<(), AllocError>
    // The word `file` has a plain value: the entry of a file.
    requires sound { is_sound (payload_of adb) (Kinds.Obj Tables.File) file ≡ true }
    // Each text that `known` remembers is a blob of the draft, with the remembered word.
    // Each remembered range has its period.
    requires known { AreRememberedBlobsOfDraft (payload_of adb) draft.old known.old }
    // On Ok, the draft gets the entry of the file, in which each integer 0 is NULL.
    ensures file { OnOk result (draft.new ≡ draft_with (without_zeros
        (value_at (payload_of adb.entry) (Kinds.Obj Tables.File) file)) draft.old) }
    // On Ok, each text that `known` remembers is a blob of the new draft, with that word. Each
    // remembered range has its period.
    ensures known { OnOk result (AreRememberedBlobsOfDraft
        (payload_of adb.entry) draft.new known.new) }
{
    // A law for the proof: a value has the shape of its table. The call does nothing at run time.
    values_have_their_shape();
    draft.open_list()?;
    known.write_field(draft, adb, Which::File, file, FILE_NAME_INDEX)?;
    write_acl(
        draft,
        adb,
        known,
        field_word(adb, Which::File, file, FILE_ACL_INDEX),
    )?;
    write_int(draft, int_field(adb, Which::File, file, FILE_SIZE_INDEX))?;
    write_int(draft, int_field(adb, Which::File, file, FILE_MTIME_INDEX))?;
    draft.blob(hash_field(adb, Which::File, file, FILE_HASHES_INDEX))?;
    known.write_field(draft, adb, Which::File, file, FILE_TARGET_INDEX)?;
    write_int(draft, int_field(adb, Which::File, file, FILE_UNUSED_INDEX))?;
    draft.close_object()
}

/// Copies the scripts of a package to the draft, in the order of table 6: the value of the word
/// `scripts` in the payload `adb`.
pub fn write_scripts(
    draft: &mut Draft,
    adb: Adb<'_>,
    known: &mut KnownTexts,
    scripts: Val,
) -> Result<(), AllocError>
    // The word `scripts` has a plain value: the scripts of a package.
    requires sound { is_sound (payload_of adb) (Kinds.Obj Tables.Scripts) scripts ≡ true }
    // Each text that `known` remembers is a blob of the draft, with the remembered word.
    // Each remembered range has its period.
    requires known { AreRememberedBlobsOfDraft (payload_of adb) draft.old known.old }
    // On Ok, the draft gets the scripts.
    ensures scripts { OnOk result (draft.new ≡ draft_with (without_zeros
        (value_at (payload_of adb.entry) (Kinds.Obj Tables.Scripts) scripts)) draft.old) }
    // On Ok, each text that `known` remembers is a blob of the new draft, with that word. Each
    // remembered range has its period.
    ensures known { OnOk result (AreRememberedBlobsOfDraft
        (payload_of adb.entry) draft.new known.new) }
{
    // A law for the proof: a value has the shape of its table. The call does nothing at run time.
    values_have_their_shape();
    draft.open_list()?;
    known.write_field(draft, adb, Which::Scripts, scripts, SCRIPTS_TRIGGER_INDEX)?;
    known.write_field(
        draft,
        adb,
        Which::Scripts,
        scripts,
        SCRIPTS_PRE_INSTALL_INDEX,
    )?;
    known.write_field(
        draft,
        adb,
        Which::Scripts,
        scripts,
        SCRIPTS_POST_INSTALL_INDEX,
    )?;
    known.write_field(
        draft,
        adb,
        Which::Scripts,
        scripts,
        SCRIPTS_PRE_DEINSTALL_INDEX,
    )?;
    known.write_field(
        draft,
        adb,
        Which::Scripts,
        scripts,
        SCRIPTS_POST_DEINSTALL_INDEX,
    )?;
    known.write_field(
        draft,
        adb,
        Which::Scripts,
        scripts,
        SCRIPTS_PRE_UPGRADE_INDEX,
    )?;
    known.write_field(
        draft,
        adb,
        Which::Scripts,
        scripts,
        SCRIPTS_POST_UPGRADE_INDEX,
    )?;
    draft.close_object()
}
