//! The ten tables of the containers, as constants: the number of each table, and the names and
//! kinds of its fields. Readers and writers of containers use them. The tables are defined in
//! `docs/formats.md`, "Schemas". A new table needs a constant here, a variant of `Which` with the
//! number of the table, and a line in `fields_of`.

ghost use Rattle.std.specs.Prelude.{◌≡◌, ◌≤◌};
ghost use Rattle.adb_view.specs.Schema.{table, table_number, shape_of, shapes_of};
ghost use Rattle.adb_view.specs.Plain.{Shape, object, plain_of};
ghost use Rattle.adb_view.specs.FormatTables.{format_table, program_table};
ghost use Rattle.adb_view.specs.declared.tables.Which.{Which};
ghost use Rattle.adb_view.specs.declared.tables.Kind.TheVariants as Kinds;

/// One of the ten tables, by which a word is read as an object. The number of a variant is that of
/// its table.
#[derive(Clone, Copy, PartialEq, Eq)]
pub enum Which {
    /// Table 1: a dependency.
    Dep = 1,
    /// Table 2: an access list.
    Acl = 2,
    /// Table 3: the information of a package.
    PkgInfo = 3,
    /// Table 4: a file of a folder.
    File = 4,
    /// Table 5: a folder of a package.
    Dir = 5,
    /// Table 6: a package's scripts.
    Scripts = 6,
    /// Table 7: a package.
    Package = 7,
    /// Table 8: an index of packages.
    Index = 8,
    /// Table 9: an installed database.
    Idb = 9,
    /// Table 10: a journal entry, which names what a change will remove and write.
    Intent = 10,
}

/// The kind of a field's value.
#[derive(Clone, Copy)]
pub enum Kind {
    /// An integer.
    Int,
    /// A text.
    Text,
    /// A hash.
    Hash,
    /// An object of a table.
    Obj(Which),
    /// An array of texts.
    TextArr,
    /// An array of objects of a table.
    ObjArr(Which),
}

/// A field of a table. The number of a field is its position in the table, counted from 1.
#[derive(Clone, Copy)]
pub struct Field {
    /// The name of the field, as dumps print it.
    pub name: FieldName,
    /// The kind of the field's value.
    pub kind: Kind,
}

/// A table of N fields.
#[derive(Clone, Copy)]
pub struct Schema<const N: usize> {
    /// The number of the table. A cause names a field by 100 times the number of the field's table,
    /// plus the field's own number.
    pub number: u16,
    /// The fields of the table, in the order of their numbers, which count from 1.
    pub fields: [Field; N],
}

/// The name of a field, spelled by `text`; fields of several tables may share a name.
#[derive(Clone, Copy)]
pub enum FieldName {
    Name,
    Version,
    Match,
    Mode,
    User,
    Group,
    Xattrs,
    Hashes,
    Description,
    Arch,
    License,
    Origin,
    Maintainer,
    Url,
    RepoCommit,
    BuildTime,
    InstalledSize,
    FileSize,
    ProviderPriority,
    Depends,
    Provides,
    Replaces,
    InstallIf,
    Recommends,
    Layer,
    Tags,
    Unused,
    Acl,
    Size,
    Mtime,
    Target,
    Files,
    Trigger,
    PreInstall,
    PostInstall,
    PreDeinstall,
    PostDeinstall,
    PreUpgrade,
    PostUpgrade,
    Info,
    Paths,
    Scripts,
    Triggers,
    ReplacesPriority,
    Packages,
    PkgnameSpec,
    Removals,
    Writes,
}

/// The names of all fields as the formats write them, in the order of the variants of `FieldName`.
static FIELD_NAMES: [&str; 48] = [
    "name",
    "version",
    "match",
    "mode",
    "user",
    "group",
    "xattrs",
    "hashes",
    "description",
    "arch",
    "license",
    "origin",
    "maintainer",
    "url",
    "repo-commit",
    "build-time",
    "installed-size",
    "file-size",
    "provider-priority",
    "depends",
    "provides",
    "replaces",
    "install-if",
    "recommends",
    "layer",
    "tags",
    "unused",
    "acl",
    "size",
    "mtime",
    "target",
    "files",
    "trigger",
    "pre-install",
    "post-install",
    "pre-deinstall",
    "post-deinstall",
    "pre-upgrade",
    "post-upgrade",
    "info",
    "paths",
    "scripts",
    "triggers",
    "replaces-priority",
    "packages",
    "pkgname-spec",
    "removals",
    "writes",
];

impl FieldName {
    ghost use Rattle.adb_view.specs.Schema.{field_name_text};

    /// The name as the formats write it.
    pub fn text(self) -> &'static str
        ensures { result.now ≡ field_name_text self }
    {
        FIELD_NAMES[self as usize]
    }
}

/// A field of a table: its name, and the kind of its value, which is a text if no kind is given.
macro_rules! field {
    ($name:ident) => {
        field!($name: Kind::Text)
    };
    ($name:ident: $kind:expr) => {
        Field {
            name: FieldName::$name,
            kind: $kind,
        }
    };
}

/// The fields of table 1, a dependency, in order. A field without a kind here is a text.
const DEP_FIELDS: [Field; 3] = [field!(Name), field!(Version), field!(Match: Kind::Int)];

/// Table 1: a dependency.
pub const DEP: Schema<3> = Schema {
    number: 1,
    fields: DEP_FIELDS,
};

/// The fields of table 2, an access list, in order. A field without a kind here is a text.
const ACL_FIELDS: [Field; 4] = [
    field!(Mode: Kind::Int),
    field!(User),
    field!(Group),
    field!(Xattrs: Kind::TextArr),
];

/// Table 2: an access list, the owner, group and mode of a file or a folder.
pub const ACL: Schema<4> = Schema {
    number: 2,
    fields: ACL_FIELDS,
};

/// The fields of table 3, the information of a package, in order. A field without a kind here is a
/// text.
const PKGINFO_FIELDS: [Field; 22] = [
    field!(Name),
    field!(Version),
    field!(Hashes: Kind::Hash),
    field!(Description),
    field!(Arch),
    field!(License),
    field!(Origin),
    field!(Maintainer),
    field!(Url),
    field!(RepoCommit: Kind::Hash),
    field!(BuildTime: Kind::Int),
    field!(InstalledSize: Kind::Int),
    field!(FileSize: Kind::Int),
    field!(ProviderPriority: Kind::Int),
    field!(Depends: Kind::ObjArr(Which::Dep)),
    field!(Provides: Kind::ObjArr(Which::Dep)),
    field!(Replaces: Kind::ObjArr(Which::Dep)),
    field!(InstallIf: Kind::ObjArr(Which::Dep)),
    field!(Recommends: Kind::ObjArr(Which::Dep)),
    field!(Layer: Kind::Int),
    field!(Tags: Kind::TextArr),
    field!(Unused: Kind::Int),
];

/// Table 3: the information of a package.
pub const PKGINFO: Schema<22> = Schema {
    number: 3,
    fields: PKGINFO_FIELDS,
};

/// The fields of table 4, a file of a folder, in order. A field without a kind here is a text.
const FILE_FIELDS: [Field; 7] = [
    field!(Name),
    field!(Acl: Kind::Obj(Which::Acl)),
    field!(Size: Kind::Int),
    field!(Mtime: Kind::Int),
    field!(Hashes: Kind::Hash),
    field!(Target),
    field!(Unused: Kind::Int),
];

/// Table 4: a file of a folder.
pub const FILE: Schema<7> = Schema {
    number: 4,
    fields: FILE_FIELDS,
};

/// The fields of table 5, a folder of a package, in order. A field without a kind here is a text.
const DIR_FIELDS: [Field; 3] = [
    field!(Name),
    field!(Acl: Kind::Obj(Which::Acl)),
    field!(Files: Kind::ObjArr(Which::File)),
];

/// Table 5: a folder of a package.
pub const DIR: Schema<3> = Schema {
    number: 5,
    fields: DIR_FIELDS,
};

/// The fields of table 6, a package's scripts, in order. Each is a text.
const SCRIPTS_FIELDS: [Field; 7] = [
    field!(Trigger),
    field!(PreInstall),
    field!(PostInstall),
    field!(PreDeinstall),
    field!(PostDeinstall),
    field!(PreUpgrade),
    field!(PostUpgrade),
];

/// Table 6: a package's scripts.
pub const SCRIPTS: Schema<7> = Schema {
    number: 6,
    fields: SCRIPTS_FIELDS,
};

/// The fields of table 7, a package, in order.
const PACKAGE_FIELDS: [Field; 5] = [
    field!(Info: Kind::Obj(Which::PkgInfo)),
    field!(Paths: Kind::ObjArr(Which::Dir)),
    field!(Scripts: Kind::Obj(Which::Scripts)),
    field!(Triggers: Kind::TextArr),
    field!(ReplacesPriority: Kind::Int),
];

/// Table 7: a package.
pub const PACKAGE: Schema<5> = Schema {
    number: 7,
    fields: PACKAGE_FIELDS,
};

/// The fields of table 8, an index of packages, in order. A field without a kind here is a text.
const INDEX_FIELDS: [Field; 3] = [
    field!(Description),
    field!(Packages: Kind::ObjArr(Which::PkgInfo)),
    field!(PkgnameSpec),
];

/// Table 8: an index of packages.
pub const INDEX: Schema<3> = Schema {
    number: 8,
    fields: INDEX_FIELDS,
};

/// The field of table 9, an installed database.
const IDB_FIELDS: [Field; 1] = [field!(Packages: Kind::ObjArr(Which::Package))];

/// Table 9: an installed database.
pub const IDB: Schema<1> = Schema {
    number: 9,
    fields: IDB_FIELDS,
};

/// The fields of table 10, a journal entry, in order.
const INTENT_FIELDS: [Field; 2] = [
    field!(Removals: Kind::TextArr),
    field!(Writes: Kind::TextArr),
];

/// Table 10: a journal entry, which names what a change will remove and write.
pub const INTENT: Schema<2> = Schema {
    number: 10,
    fields: INTENT_FIELDS,
};

// The fields of table 1 as a static, so that `fields_of` can lend them.
static DEP_ROWS: [Field; 3] = DEP_FIELDS;

// The fields of table 2 as a static, so that `fields_of` can lend them.
static ACL_ROWS: [Field; 4] = ACL_FIELDS;

// The fields of table 3 as a static, so that `fields_of` can lend them.
static PKGINFO_ROWS: [Field; 22] = PKGINFO_FIELDS;

// The fields of table 4 as a static, so that `fields_of` can lend them.
static FILE_ROWS: [Field; 7] = FILE_FIELDS;

// The fields of table 5 as a static, so that `fields_of` can lend them.
static DIR_ROWS: [Field; 3] = DIR_FIELDS;

// The fields of table 6 as a static, so that `fields_of` can lend them.
static SCRIPTS_ROWS: [Field; 7] = SCRIPTS_FIELDS;

// The fields of table 7 as a static, so that `fields_of` can lend them.
static PACKAGE_ROWS: [Field; 5] = PACKAGE_FIELDS;

// The fields of table 8 as a static, so that `fields_of` can lend them.
static INDEX_ROWS: [Field; 3] = INDEX_FIELDS;

// The fields of table 9 as a static, so that `fields_of` can lend them.
static IDB_ROWS: [Field; 1] = IDB_FIELDS;

// The fields of table 10 as a static, so that `fields_of` can lend them.
static INTENT_ROWS: [Field; 2] = INTENT_FIELDS;

/// The fields of the table `which`, in the order of their numbers, which count from 1.
pub fn fields_of(which: Which) -> &'static [Field]
    ensures { result.now ≡ table which }
{
    match which {
        Which::Dep => &DEP_ROWS,
        Which::Acl => &ACL_ROWS,
        Which::PkgInfo => &PKGINFO_ROWS,
        Which::File => &FILE_ROWS,
        Which::Dir => &DIR_ROWS,
        Which::Scripts => &SCRIPTS_ROWS,
        Which::Package => &PACKAGE_ROWS,
        Which::Index => &INDEX_ROWS,
        Which::Idb => &IDB_ROWS,
        Which::Intent => &INTENT_ROWS,
    }
}

/// The number of a table, from 1 to 10.
pub fn number_of(which: Which) -> u16
    ensures value { result ≡ table_number which }
    ensures small { result ≤ 10 }
{
    which as u16
}

/// A law: the tables have the numbers, names and kinds that the formats list.
pub fn tables_are_as_listed()
    ensures { (which : Which) → program_table which ≡ format_table which }
{}

/// A law: each object has the fields of its table, however deep it is nested.
pub fn tables_are_unrolled_whole()
    ensures { (which : Which) → shape_of (Kinds.Obj which)
        ≡ object (table_number which) (shapes_of (table which)) }
{}
