//! Views of a package: its folders, its files, their owners and modes, and its scripts. The fields
//! are in `docs/formats.md`, "Schemas", tables 2 and 4 to 7.

ghost use Rattle.std.specs.Prelude.{◌≡◌, true};
ghost use Rattle.adb_view.specs.Adb.{payload_of};
ghost use Rattle.adb_view.specs.Values.{is_sound, value_at};
ghost use Rattle.adb_view.specs.declared.tables.Kind.TheVariants as Kinds;
ghost use Rattle.adb_view.specs.declared.tables.Which.TheVariants as Tables;

use crate::package_info::PkgInfo;
use adb_fields::{
    Kinded, List, View, field_word, hash_field, int_field, objects_field, text_field, texts_field,
};
use adb_view::field_indexes::{
    ACL_GROUP_INDEX, ACL_MODE_INDEX, ACL_USER_INDEX, ACL_XATTRS_INDEX, DIR_ACL_INDEX,
    DIR_FILES_INDEX, DIR_NAME_INDEX, FILE_ACL_INDEX, FILE_HASHES_INDEX, FILE_MTIME_INDEX,
    FILE_NAME_INDEX, FILE_SIZE_INDEX, FILE_TARGET_INDEX, FILE_UNUSED_INDEX, PACKAGE_INFO_INDEX,
    PACKAGE_PATHS_INDEX, PACKAGE_REPLACES_PRIORITY_INDEX, PACKAGE_SCRIPTS_INDEX,
    PACKAGE_TRIGGERS_INDEX, SCRIPTS_POST_DEINSTALL_INDEX, SCRIPTS_POST_INSTALL_INDEX,
    SCRIPTS_POST_UPGRADE_INDEX, SCRIPTS_PRE_DEINSTALL_INDEX, SCRIPTS_PRE_INSTALL_INDEX,
    SCRIPTS_PRE_UPGRADE_INDEX, SCRIPTS_TRIGGER_INDEX,
};
use adb_view::{Adb, Val, Which};

/// A view of an access list (table 2): the owner, group and mode of a file or a folder.
#[derive(Clone, Copy)]
pub struct AclView<'a> {
    /// The payload that contains the access list.
    adb: Adb<'a>,
    /// The word (32-bit reference) of the access list in the payload.
    word: Val,
    // The word has a plain value, an access list.
    ghost sound: { is_sound (payload_of adb) (Kinds.Obj Tables.Acl) word ≡ true },
}

impl<'a> Kinded for AclView<'a> {
    // What a word of this kind refers to: an access list.
    ghost kind = { Kinds.Obj Tables.Acl };
}

impl<'a> View<'a> for AclView<'a> {
    // A view shows the value to which its word refers in its payload.
    ghost shows = { λ view. value_at (payload_of view.adb) (Kinds.Obj Tables.Acl) view.word };

    // The view of a word that is sound as an access list.
    fn of(adb: Adb<'a>, word: Val) -> AclView<'a> {
        AclView { adb, word }
    }
}

impl<'a> AclView<'a> {
    ghost use Rattle.adb_view.specs.FieldIndexes.{ACL_GROUP_INDEX, ACL_MODE_INDEX, ACL_USER_INDEX, ACL_XATTRS_INDEX};
    ghost use Rattle.adb_view.specs.Values.{entry_at_index, int_in, text_in};
    ghost use Rattle.adb_schema.specs.Views.{acl_value};
    ghost use Rattle.adb_fields.specs.ListValue.{list_value};

    /// The mode bits, as a number.
    pub fn mode(&self) -> u64
        ensures { result ≡ int_in (entry_at_index (acl_value self.now) ACL_MODE_INDEX) }
    {
        int_field(self.adb, Which::Acl, self.word, ACL_MODE_INDEX)
    }

    /// The user who owns the file or folder: a name, or a number as a text.
    pub fn user(&self) -> &'a [u8]
        ensures { result.now ≡ text_in (entry_at_index (acl_value self.now) ACL_USER_INDEX) }
    {
        text_field(self.adb, Which::Acl, self.word, ACL_USER_INDEX)
    }

    /// The group that owns the file or folder: a name, or a number as a text.
    pub fn group(&self) -> &'a [u8]
        ensures { result.now ≡ text_in (entry_at_index (acl_value self.now) ACL_GROUP_INDEX) }
    {
        text_field(self.adb, Which::Acl, self.word, ACL_GROUP_INDEX)
    }

    /// The extended attributes. They are stored, and no command uses them.
    pub fn xattrs(&self) -> List<'a, &'a [u8]>
        ensures { list_value result ≡ entry_at_index (acl_value self.now) ACL_XATTRS_INDEX }
    {
        List::of(
            self.adb,
            texts_field(self.adb, Which::Acl, self.word, ACL_XATTRS_INDEX),
        )
    }
}

/// A view of a file of a folder (table 4).
#[derive(Clone, Copy)]
pub struct FileInfo<'a> {
    /// The payload that contains the file's entry.
    adb: Adb<'a>,
    /// The word (32-bit reference) of the entry in the payload.
    word: Val,
    // The word has a plain value, the entry of a file.
    ghost sound: { is_sound (payload_of adb) (Kinds.Obj Tables.File) word ≡ true },
}

impl<'a> Kinded for FileInfo<'a> {
    // What a word of this kind refers to: the entry of a file.
    ghost kind = { Kinds.Obj Tables.File };
}

impl<'a> View<'a> for FileInfo<'a> {
    // A view shows the value to which its word refers in its payload.
    ghost shows = { λ view. value_at (payload_of view.adb) (Kinds.Obj Tables.File) view.word };

    // The view of a word that is sound as a file.
    fn of(adb: Adb<'a>, word: Val) -> FileInfo<'a> {
        FileInfo { adb, word }
    }
}

impl<'a> FileInfo<'a> {
    ghost use Rattle.adb_view.specs.FieldIndexes.{FILE_ACL_INDEX, FILE_HASHES_INDEX, FILE_MTIME_INDEX, FILE_NAME_INDEX, FILE_SIZE_INDEX, FILE_TARGET_INDEX, FILE_UNUSED_INDEX};
    ghost use Rattle.adb_view.specs.Values.{entry_at_index, int_in, text_in};
    ghost use Rattle.adb_schema.specs.Views.{acl_value, file_value};

    /// The name of the file: one part of a path, in its folder.
    pub fn name(&self) -> &'a [u8]
        ensures { result.now ≡ text_in (entry_at_index (file_value self.now) FILE_NAME_INDEX) }
    {
        text_field(self.adb, Which::File, self.word, FILE_NAME_INDEX)
    }

    /// The access list of the file: its owner, group and mode.
    pub fn acl(&self) -> AclView<'a>
        ensures { acl_value result ≡ entry_at_index (file_value self.now) FILE_ACL_INDEX }
    {
        AclView::of(
            self.adb,
            field_word(self.adb, Which::File, self.word, FILE_ACL_INDEX),
        )
    }

    /// The size of the file in bytes.
    pub fn size(&self) -> u64
        ensures { result ≡ int_in (entry_at_index (file_value self.now) FILE_SIZE_INDEX) }
    {
        int_field(self.adb, Which::File, self.word, FILE_SIZE_INDEX)
    }

    /// When the file was changed, in seconds since 1970.
    pub fn mtime(&self) -> u64
        ensures { result ≡ int_in (entry_at_index (file_value self.now) FILE_MTIME_INDEX) }
    {
        int_field(self.adb, Which::File, self.word, FILE_MTIME_INDEX)
    }

    /// The digest of the file's bytes: SHA-1, SHA-256 or SHA-512, by its length; empty if the
    /// digest is unknown.
    pub fn hashes(&self) -> &'a [u8]
        ensures { result.now ≡ text_in (entry_at_index (file_value self.now) FILE_HASHES_INDEX) }
    {
        hash_field(self.adb, Which::File, self.word, FILE_HASHES_INDEX)
    }

    /// The field *target*. For a link this field has the two bytes `00 a0`, and then the text of
    /// the target. For a regular file this field is empty. The rule is 406 in `docs/formats.md`,
    /// "The texts".
    pub fn target(&self) -> &'a [u8]
        ensures { result.now ≡ text_in (entry_at_index (file_value self.now) FILE_TARGET_INDEX) }
    {
        text_field(self.adb, Which::File, self.word, FILE_TARGET_INDEX)
    }

    /// A reserved field.
    pub fn unused(&self) -> u64
        ensures { result ≡ int_in (entry_at_index (file_value self.now) FILE_UNUSED_INDEX) }
    {
        int_field(self.adb, Which::File, self.word, FILE_UNUSED_INDEX)
    }
}

/// A view of a folder of a package (table 5).
#[derive(Clone, Copy)]
pub struct DirInfo<'a> {
    /// The payload that contains the folder.
    adb: Adb<'a>,
    /// The word (32-bit reference) of the folder in the payload.
    word: Val,
    // The word has a plain value, a folder.
    ghost sound: { is_sound (payload_of adb) (Kinds.Obj Tables.Dir) word ≡ true },
}

impl<'a> Kinded for DirInfo<'a> {
    // What a word of this kind refers to: a folder.
    ghost kind = { Kinds.Obj Tables.Dir };
}

impl<'a> View<'a> for DirInfo<'a> {
    // A view shows the value to which its word refers in its payload.
    ghost shows = { λ view. value_at (payload_of view.adb) (Kinds.Obj Tables.Dir) view.word };

    // The view of a word that is sound as a folder.
    fn of(adb: Adb<'a>, word: Val) -> DirInfo<'a> {
        DirInfo { adb, word }
    }
}

impl<'a> DirInfo<'a> {
    ghost use Rattle.adb_view.specs.FieldIndexes.{DIR_ACL_INDEX, DIR_FILES_INDEX, DIR_NAME_INDEX};
    ghost use Rattle.adb_view.specs.Values.{entry_at_index, text_in};
    ghost use Rattle.adb_schema.specs.Views.{acl_value, dir_value};
    ghost use Rattle.adb_fields.specs.ListValue.{list_value};

    /// The folder's path; empty for the root.
    pub fn name(&self) -> &'a [u8]
        ensures { result.now ≡ text_in (entry_at_index (dir_value self.now) DIR_NAME_INDEX) }
    {
        text_field(self.adb, Which::Dir, self.word, DIR_NAME_INDEX)
    }

    /// The access list of the folder: its owner, group and mode.
    pub fn acl(&self) -> AclView<'a>
        ensures { acl_value result ≡ entry_at_index (dir_value self.now) DIR_ACL_INDEX }
    {
        AclView::of(
            self.adb,
            field_word(self.adb, Which::Dir, self.word, DIR_ACL_INDEX),
        )
    }

    /// The files of the folder, in their order.
    pub fn files(&self) -> List<'a, FileInfo<'a>>
        ensures { list_value result ≡ entry_at_index (dir_value self.now) DIR_FILES_INDEX }
    {
        let entries = objects_field(
            self.adb,
            Which::Dir,
            self.word,
            DIR_FILES_INDEX,
            Which::File,
        );
        List::of(self.adb, entries)
    }
}

/// A view of a package's scripts (table 6). Each is the text of a script, empty if there is none.
/// `docs/commands.md`, "`add` and `del`", defines which scripts of a change would run.
#[derive(Clone, Copy)]
pub struct ScriptsView<'a> {
    /// The payload that contains the scripts.
    adb: Adb<'a>,
    /// The word (32-bit reference) of the scripts in the payload.
    word: Val,
    // The word has a plain value, the scripts of a package.
    ghost sound: { is_sound (payload_of adb) (Kinds.Obj Tables.Scripts) word ≡ true },
}

impl<'a> Kinded for ScriptsView<'a> {
    // What a word of this kind refers to: the scripts of a package.
    ghost kind = { Kinds.Obj Tables.Scripts };
}

impl<'a> View<'a> for ScriptsView<'a> {
    // A view shows the value to which its word refers in its payload.
    ghost shows = { λ view. value_at (payload_of view.adb) (Kinds.Obj Tables.Scripts) view.word };

    // The view of a word that is sound as scripts.
    fn of(adb: Adb<'a>, word: Val) -> ScriptsView<'a> {
        ScriptsView { adb, word }
    }
}

impl<'a> ScriptsView<'a> {
    ghost use Rattle.adb_view.specs.FieldIndexes.{SCRIPTS_POST_DEINSTALL_INDEX, SCRIPTS_POST_INSTALL_INDEX, SCRIPTS_POST_UPGRADE_INDEX, SCRIPTS_PRE_DEINSTALL_INDEX, SCRIPTS_PRE_INSTALL_INDEX, SCRIPTS_PRE_UPGRADE_INDEX, SCRIPTS_TRIGGER_INDEX};
    ghost use Rattle.adb_view.specs.Values.{entry_at_index, text_in};
    ghost use Rattle.adb_schema.specs.Views.{scripts_value};

    /// The script for a change in a folder that matches a pattern of `PackageView::triggers`.
    pub fn trigger(&self) -> &'a [u8]
        ensures { result.now
            ≡ text_in (entry_at_index (scripts_value self.now) SCRIPTS_TRIGGER_INDEX) }
    {
        text_field(self.adb, Which::Scripts, self.word, SCRIPTS_TRIGGER_INDEX)
    }

    /// The script for before an installation of the package.
    pub fn pre_install(&self) -> &'a [u8]
        ensures { result.now
            ≡ text_in (entry_at_index (scripts_value self.now) SCRIPTS_PRE_INSTALL_INDEX) }
    {
        text_field(
            self.adb,
            Which::Scripts,
            self.word,
            SCRIPTS_PRE_INSTALL_INDEX,
        )
    }

    /// The script for after an installation of the package.
    pub fn post_install(&self) -> &'a [u8]
        ensures { result.now
            ≡ text_in (entry_at_index (scripts_value self.now) SCRIPTS_POST_INSTALL_INDEX) }
    {
        text_field(
            self.adb,
            Which::Scripts,
            self.word,
            SCRIPTS_POST_INSTALL_INDEX,
        )
    }

    /// The script for before a removal of the package.
    pub fn pre_deinstall(&self) -> &'a [u8]
        ensures { result.now
            ≡ text_in (entry_at_index (scripts_value self.now) SCRIPTS_PRE_DEINSTALL_INDEX) }
    {
        text_field(
            self.adb,
            Which::Scripts,
            self.word,
            SCRIPTS_PRE_DEINSTALL_INDEX,
        )
    }

    /// The script for after a removal of the package.
    pub fn post_deinstall(&self) -> &'a [u8]
        ensures { result.now
            ≡ text_in (entry_at_index (scripts_value self.now) SCRIPTS_POST_DEINSTALL_INDEX) }
    {
        text_field(
            self.adb,
            Which::Scripts,
            self.word,
            SCRIPTS_POST_DEINSTALL_INDEX,
        )
    }

    /// The script for before an upgrade of the package.
    pub fn pre_upgrade(&self) -> &'a [u8]
        ensures { result.now
            ≡ text_in (entry_at_index (scripts_value self.now) SCRIPTS_PRE_UPGRADE_INDEX) }
    {
        text_field(
            self.adb,
            Which::Scripts,
            self.word,
            SCRIPTS_PRE_UPGRADE_INDEX,
        )
    }

    /// The script for after an upgrade of the package.
    pub fn post_upgrade(&self) -> &'a [u8]
        ensures { result.now
            ≡ text_in (entry_at_index (scripts_value self.now) SCRIPTS_POST_UPGRADE_INDEX) }
    {
        text_field(
            self.adb,
            Which::Scripts,
            self.word,
            SCRIPTS_POST_UPGRADE_INDEX,
        )
    }
}

/// A view of a package (table 7).
#[derive(Clone, Copy)]
pub struct PackageView<'a> {
    /// The payload that contains the package.
    adb: Adb<'a>,
    /// The word (32-bit reference) of the package in the payload.
    word: Val,
    // The word has a plain value, a package.
    ghost sound: { is_sound (payload_of adb) (Kinds.Obj Tables.Package) word ≡ true },
}

impl<'a> Kinded for PackageView<'a> {
    // What a word of this kind refers to: a package.
    ghost kind = { Kinds.Obj Tables.Package };
}

impl<'a> View<'a> for PackageView<'a> {
    // A view shows the value to which its word refers in its payload.
    ghost shows = { λ view. value_at (payload_of view.adb) (Kinds.Obj Tables.Package) view.word };

    // The view of a word that is sound as a package.
    fn of(adb: Adb<'a>, word: Val) -> PackageView<'a> {
        PackageView { adb, word }
    }
}

impl<'a> PackageView<'a> {
    ghost use Rattle.adb_view.specs.FieldIndexes.{PACKAGE_INFO_INDEX, PACKAGE_PATHS_INDEX, PACKAGE_REPLACES_PRIORITY_INDEX, PACKAGE_SCRIPTS_INDEX, PACKAGE_TRIGGERS_INDEX};
    ghost use Rattle.adb_view.specs.Values.{entry_at_index, int_in};
    ghost use Rattle.adb_schema.specs.Views.{info_value, package_value, scripts_value};
    ghost use Rattle.adb_fields.specs.ListValue.{list_value};

    /// The view of a word that is sound as a package, read from this payload.
    pub(crate) fn at(adb: Adb<'a>, word: Val) -> PackageView<'a>
        // The word refers to a package in this payload.
        requires { is_sound (payload_of adb) (Kinds.Obj Tables.Package) word ≡ true }
        // The value of the package is that of the word.
        ensures value { package_value result
            ≡ value_at (payload_of adb.entry) (Kinds.Obj Tables.Package) word }
        // The payload of the view is `adb`.
        ensures lent { payload_of result.adb ≡ payload_of adb.entry }
    {
        PackageView { adb, word }
    }

    /// The payload that the package is read from.
    pub fn adb(&self) -> Adb<'a>
        ensures { result ≡ self.now.adb }
    {
        self.adb
    }

    /// The word of the package in the payload.
    pub fn word(&self) -> Val
        // The result is the word of the view.
        ensures is { result ≡ self.now.word }
        // The word refers to a package in the payload of the view.
        ensures sound { is_sound (payload_of self.now.adb) (Kinds.Obj Tables.Package) result
            ≡ true }
    {
        self.word
    }

    /// The information of the package.
    pub fn info(&self) -> PkgInfo<'a>
        ensures { info_value result ≡ entry_at_index (package_value self.now) PACKAGE_INFO_INDEX }
    {
        PkgInfo::of(
            self.adb,
            field_word(self.adb, Which::Package, self.word, PACKAGE_INFO_INDEX),
        )
    }

    /// The folders of the package, with their files.
    pub fn paths(&self) -> List<'a, DirInfo<'a>>
        ensures { list_value result ≡ entry_at_index (package_value self.now) PACKAGE_PATHS_INDEX }
    {
        let entries = objects_field(
            self.adb,
            Which::Package,
            self.word,
            PACKAGE_PATHS_INDEX,
            Which::Dir,
        );
        List::of(self.adb, entries)
    }

    /// The scripts of the package.
    pub fn scripts(&self) -> ScriptsView<'a>
        ensures { scripts_value result
            ≡ entry_at_index (package_value self.now) PACKAGE_SCRIPTS_INDEX }
    {
        ScriptsView::of(
            self.adb,
            field_word(self.adb, Which::Package, self.word, PACKAGE_SCRIPTS_INDEX),
        )
    }

    /// The patterns of the folders that the package's trigger script watches.
    pub fn triggers(&self) -> List<'a, &'a [u8]>
        ensures { list_value result
            ≡ entry_at_index (package_value self.now) PACKAGE_TRIGGERS_INDEX }
    {
        List::of(
            self.adb,
            texts_field(self.adb, Which::Package, self.word, PACKAGE_TRIGGERS_INDEX),
        )
    }

    /// The priority of the package in replacing. If two packages list one path and each names the
    /// other in `replaces`, the one with the greater priority owns the path.
    pub fn replaces_priority(&self) -> u64
        ensures { result ≡ int_in (entry_at_index
            (package_value self.now) PACKAGE_REPLACES_PRIORITY_INDEX) }
    {
        int_field(
            self.adb,
            Which::Package,
            self.word,
            PACKAGE_REPLACES_PRIORITY_INDEX,
        )
    }
}
