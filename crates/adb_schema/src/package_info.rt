//! Views of a package's information and of dependencies. The fields are in `docs/formats.md`,
//! "Schemas", tables 1 and 3.

ghost use Rattle.std.specs.Prelude.{◌≡◌, true};
ghost use Rattle.adb_view.specs.Adb.{payload_of};
ghost use Rattle.adb_view.specs.Values.{is_sound, value_at};
ghost use Rattle.adb_view.specs.declared.tables.Kind.TheVariants as Kinds;
ghost use Rattle.adb_view.specs.declared.tables.Which.TheVariants as Tables;

use adb_fields::{
    Kinded, List, View, hash_field, int_field, objects_field, text_field, texts_field,
};
use adb_view::field_indexes::{
    DEP_MATCH_INDEX, DEP_NAME_INDEX, DEP_VERSION_INDEX, INFO_ARCH_INDEX, INFO_BUILD_TIME_INDEX,
    INFO_DEPENDS_INDEX, INFO_DESCRIPTION_INDEX, INFO_FILE_SIZE_INDEX, INFO_HASHES_INDEX,
    INFO_INSTALL_IF_INDEX, INFO_INSTALLED_SIZE_INDEX, INFO_LAYER_INDEX, INFO_LICENSE_INDEX,
    INFO_MAINTAINER_INDEX, INFO_NAME_INDEX, INFO_ORIGIN_INDEX, INFO_PROVIDER_PRIORITY_INDEX,
    INFO_PROVIDES_INDEX, INFO_RECOMMENDS_INDEX, INFO_REPLACES_INDEX, INFO_REPO_COMMIT_INDEX,
    INFO_TAGS_INDEX, INFO_UNUSED_INDEX, INFO_URL_INDEX, INFO_VERSION_INDEX,
};
use adb_view::{Adb, Val, Which};

/// A view of a dependency (table 1).
#[derive(Clone, Copy)]
pub struct DepView<'a> {
    /// The payload that contains the dependency.
    adb: Adb<'a>,
    /// The word (32-bit reference) of the dependency in the payload.
    word: Val,
    // The word has a plain value, a dependency.
    ghost sound: { is_sound (payload_of adb) (Kinds.Obj Tables.Dep) word ≡ true },
}

impl<'a> Kinded for DepView<'a> {
    // What a word of this kind refers to: a dependency.
    ghost kind = { Kinds.Obj Tables.Dep };
}

impl<'a> View<'a> for DepView<'a> {
    // A view shows the value to which its word refers in its payload.
    ghost shows = { λ view. value_at (payload_of view.adb) (Kinds.Obj Tables.Dep) view.word };

    // The view of a word that is sound as a dependency.
    fn of(adb: Adb<'a>, word: Val) -> DepView<'a> {
        DepView { adb, word }
    }
}

impl<'a> DepView<'a> {
    ghost use Rattle.adb_view.specs.FieldIndexes.{DEP_MATCH_INDEX, DEP_NAME_INDEX, DEP_VERSION_INDEX};
    ghost use Rattle.adb_view.specs.Values.{entry_at_index, int_in, text_in};
    ghost use Rattle.adb_schema.specs.Views.{dependency_value};

    /// The name of the dependency.
    pub fn name(&self) -> &'a [u8]
        ensures { result.now ≡ text_in (entry_at_index (dependency_value self.now) DEP_NAME_INDEX) }
    {
        text_field(self.adb, Which::Dep, self.word, DEP_NAME_INDEX)
    }

    /// The version of the dependency; empty for none.
    pub fn version(&self) -> &'a [u8]
        ensures { result.now
            ≡ text_in (entry_at_index (dependency_value self.now) DEP_VERSION_INDEX) }
    {
        text_field(self.adb, Which::Dep, self.word, DEP_VERSION_INDEX)
    }

    /// The match number: the bits 1 equal, 2 less, 4 greater, 8 fuzzy, 16 conflict
    /// (`docs/formats.md`, "Dependencies").
    pub fn matching(&self) -> u64
        ensures { result ≡ int_in (entry_at_index (dependency_value self.now) DEP_MATCH_INDEX) }
    {
        int_field(self.adb, Which::Dep, self.word, DEP_MATCH_INDEX)
    }
}

/// A view of the information of a package (table 3).
#[derive(Clone, Copy)]
pub struct PkgInfo<'a> {
    /// The payload that contains the information.
    adb: Adb<'a>,
    /// The word (32-bit reference) of the information in the payload.
    word: u32,
    // The word has a plain value, the information of a package.
    ghost sound: { is_sound (payload_of adb) (Kinds.Obj Tables.PkgInfo) word ≡ true },
}

impl<'a> Kinded for PkgInfo<'a> {
    // What a word of this kind refers to: the information of a package.
    ghost kind = { Kinds.Obj Tables.PkgInfo };
}

impl<'a> View<'a> for PkgInfo<'a> {
    // A view shows the value to which its word refers in its payload.
    ghost shows = { λ view. value_at (payload_of view.adb) (Kinds.Obj Tables.PkgInfo) view.word };

    // The view of a word that is sound as the information of a package.
    fn of(adb: Adb<'a>, word: Val) -> PkgInfo<'a> {
        PkgInfo {
            adb,
            word: word.word(),
        }
    }
}

impl<'a> PkgInfo<'a> {
    ghost use Rattle.adb_view.specs.FieldIndexes.{INFO_ARCH_INDEX, INFO_BUILD_TIME_INDEX, INFO_DEPENDS_INDEX, INFO_DESCRIPTION_INDEX, INFO_FILE_SIZE_INDEX, INFO_HASHES_INDEX, INFO_INSTALLED_SIZE_INDEX, INFO_INSTALL_IF_INDEX, INFO_LAYER_INDEX, INFO_LICENSE_INDEX, INFO_MAINTAINER_INDEX, INFO_NAME_INDEX, INFO_ORIGIN_INDEX, INFO_PROVIDER_PRIORITY_INDEX, INFO_PROVIDES_INDEX, INFO_RECOMMENDS_INDEX, INFO_REPLACES_INDEX, INFO_REPO_COMMIT_INDEX, INFO_TAGS_INDEX, INFO_UNUSED_INDEX, INFO_URL_INDEX, INFO_VERSION_INDEX};
    ghost use Rattle.adb_view.specs.Values.{entry_at_index, int_in, text_in};
    ghost use Rattle.adb_schema.specs.Views.{info_value};
    ghost use Rattle.adb_fields.specs.ListValue.{list_value};

    /// The payload that the information is read from.
    pub fn adb(&self) -> Adb<'a>
        ensures { result ≡ self.now.adb }
    {
        self.adb
    }

    /// The word of the information in the payload.
    pub fn word(&self) -> Val
        // The result is the word of the view.
        ensures is { result ≡ self.now.word }
        // The word refers to a package's information in the payload of the view.
        ensures sound { is_sound (payload_of self.now.adb) (Kinds.Obj Tables.PkgInfo) result
            ≡ true }
    {
        Val::of(self.word)
    }

    /// The package's name.
    pub fn name(&self) -> &'a [u8]
        ensures { result.now ≡ text_in (entry_at_index (info_value self.now) INFO_NAME_INDEX) }
    {
        text_field(
            self.adb,
            Which::PkgInfo,
            Val::of(self.word),
            INFO_NAME_INDEX,
        )
    }

    /// The package's version.
    pub fn version(&self) -> &'a [u8]
        ensures { result.now ≡ text_in (entry_at_index (info_value self.now) INFO_VERSION_INDEX) }
    {
        text_field(
            self.adb,
            Which::PkgInfo,
            Val::of(self.word),
            INFO_VERSION_INDEX,
        )
    }

    /// A digest of the package. In an index it is the package's id or the first 20 bytes of the id;
    /// elsewhere it may be empty.
    pub fn hashes(&self) -> &'a [u8]
        ensures { result.now ≡ text_in (entry_at_index (info_value self.now) INFO_HASHES_INDEX) }
    {
        hash_field(
            self.adb,
            Which::PkgInfo,
            Val::of(self.word),
            INFO_HASHES_INDEX,
        )
    }

    /// A description of the package in one line.
    pub fn description(&self) -> &'a [u8]
        ensures { result.now
            ≡ text_in (entry_at_index (info_value self.now) INFO_DESCRIPTION_INDEX) }
    {
        text_field(
            self.adb,
            Which::PkgInfo,
            Val::of(self.word),
            INFO_DESCRIPTION_INDEX,
        )
    }

    /// The architecture of the machines that the package is for.
    pub fn arch(&self) -> &'a [u8]
        ensures { result.now ≡ text_in (entry_at_index (info_value self.now) INFO_ARCH_INDEX) }
    {
        text_field(
            self.adb,
            Which::PkgInfo,
            Val::of(self.word),
            INFO_ARCH_INDEX,
        )
    }

    /// The license of the package.
    pub fn license(&self) -> &'a [u8]
        ensures { result.now ≡ text_in (entry_at_index (info_value self.now) INFO_LICENSE_INDEX) }
    {
        text_field(
            self.adb,
            Which::PkgInfo,
            Val::of(self.word),
            INFO_LICENSE_INDEX,
        )
    }

    /// The name of the source package that the package was built from.
    pub fn origin(&self) -> &'a [u8]
        ensures { result.now ≡ text_in (entry_at_index (info_value self.now) INFO_ORIGIN_INDEX) }
    {
        text_field(
            self.adb,
            Which::PkgInfo,
            Val::of(self.word),
            INFO_ORIGIN_INDEX,
        )
    }

    /// Who maintains the package.
    pub fn maintainer(&self) -> &'a [u8]
        ensures { result.now
            ≡ text_in (entry_at_index (info_value self.now) INFO_MAINTAINER_INDEX) }
    {
        text_field(
            self.adb,
            Which::PkgInfo,
            Val::of(self.word),
            INFO_MAINTAINER_INDEX,
        )
    }

    /// The address of a page about the package.
    pub fn url(&self) -> &'a [u8]
        ensures { result.now ≡ text_in (entry_at_index (info_value self.now) INFO_URL_INDEX) }
    {
        text_field(self.adb, Which::PkgInfo, Val::of(self.word), INFO_URL_INDEX)
    }

    /// The commit of the recipe that the package was built by, as bytes.
    pub fn repo_commit(&self) -> &'a [u8]
        ensures { result.now
            ≡ text_in (entry_at_index (info_value self.now) INFO_REPO_COMMIT_INDEX) }
    {
        hash_field(
            self.adb,
            Which::PkgInfo,
            Val::of(self.word),
            INFO_REPO_COMMIT_INDEX,
        )
    }

    /// When the package was built, in seconds since 1970.
    pub fn build_time(&self) -> u64
        ensures { result ≡ int_in (entry_at_index (info_value self.now) INFO_BUILD_TIME_INDEX) }
    {
        int_field(
            self.adb,
            Which::PkgInfo,
            Val::of(self.word),
            INFO_BUILD_TIME_INDEX,
        )
    }

    /// The size of the package's installed files in bytes.
    pub fn installed_size(&self) -> u64
        ensures { result ≡ int_in (entry_at_index (info_value self.now) INFO_INSTALLED_SIZE_INDEX) }
    {
        int_field(
            self.adb,
            Which::PkgInfo,
            Val::of(self.word),
            INFO_INSTALLED_SIZE_INDEX,
        )
    }

    /// The size of the package's file in bytes.
    pub fn file_size(&self) -> u64
        ensures { result ≡ int_in (entry_at_index (info_value self.now) INFO_FILE_SIZE_INDEX) }
    {
        int_field(
            self.adb,
            Which::PkgInfo,
            Val::of(self.word),
            INFO_FILE_SIZE_INDEX,
        )
    }

    /// How strongly the package is preferred among the providers of a name.
    pub fn provider_priority(&self) -> u64
        ensures { result ≡ int_in (entry_at_index
            (info_value self.now) INFO_PROVIDER_PRIORITY_INDEX) }
    {
        int_field(
            self.adb,
            Which::PkgInfo,
            Val::of(self.word),
            INFO_PROVIDER_PRIORITY_INDEX,
        )
    }

    /// The dependencies of the package, and its conflicts.
    pub fn depends(&self) -> List<'a, DepView<'a>>
        ensures { list_value result ≡ entry_at_index (info_value self.now) INFO_DEPENDS_INDEX }
    {
        let entries = objects_field(
            self.adb,
            Which::PkgInfo,
            Val::of(self.word),
            INFO_DEPENDS_INDEX,
            Which::Dep,
        );
        List::of(self.adb, entries)
    }

    /// The names and versions that the package provides besides its own.
    pub fn provides(&self) -> List<'a, DepView<'a>>
        ensures { list_value result ≡ entry_at_index (info_value self.now) INFO_PROVIDES_INDEX }
    {
        let entries = objects_field(
            self.adb,
            Which::PkgInfo,
            Val::of(self.word),
            INFO_PROVIDES_INDEX,
            Which::Dep,
        );
        List::of(self.adb, entries)
    }

    /// The packages whose files this one may replace.
    pub fn replaces(&self) -> List<'a, DepView<'a>>
        ensures { list_value result ≡ entry_at_index (info_value self.now) INFO_REPLACES_INDEX }
    {
        let entries = objects_field(
            self.adb,
            Which::PkgInfo,
            Val::of(self.word),
            INFO_REPLACES_INDEX,
            Which::Dep,
        );
        List::of(self.adb, entries)
    }

    /// The package is installed automatically if all of these are met.
    pub fn install_if(&self) -> List<'a, DepView<'a>>
        ensures { list_value result ≡ entry_at_index (info_value self.now) INFO_INSTALL_IF_INDEX }
    {
        let entries = objects_field(
            self.adb,
            Which::PkgInfo,
            Val::of(self.word),
            INFO_INSTALL_IF_INDEX,
            Which::Dep,
        );
        List::of(self.adb, entries)
    }

    /// The packages that are recommended with this one; no command uses them.
    pub fn recommends(&self) -> List<'a, DepView<'a>>
        ensures { list_value result ≡ entry_at_index (info_value self.now) INFO_RECOMMENDS_INDEX }
    {
        let entries = objects_field(
            self.adb,
            Which::PkgInfo,
            Val::of(self.word),
            INFO_RECOMMENDS_INDEX,
            Which::Dep,
        );
        List::of(self.adb, entries)
    }

    /// The layer, a part of the root, that the package belongs to; no command acts on it.
    pub fn layer(&self) -> u64
        ensures { result ≡ int_in (entry_at_index (info_value self.now) INFO_LAYER_INDEX) }
    {
        int_field(
            self.adb,
            Which::PkgInfo,
            Val::of(self.word),
            INFO_LAYER_INDEX,
        )
    }

    /// The tags that the maker of the package gave it.
    pub fn tags(&self) -> List<'a, &'a [u8]>
        ensures { list_value result ≡ entry_at_index (info_value self.now) INFO_TAGS_INDEX }
    {
        List::of(
            self.adb,
            texts_field(
                self.adb,
                Which::PkgInfo,
                Val::of(self.word),
                INFO_TAGS_INDEX,
            ),
        )
    }

    /// A reserved field.
    pub fn unused(&self) -> u64
        ensures { result ≡ int_in (entry_at_index (info_value self.now) INFO_UNUSED_INDEX) }
    {
        int_field(
            self.adb,
            Which::PkgInfo,
            Val::of(self.word),
            INFO_UNUSED_INDEX,
        )
    }
}
