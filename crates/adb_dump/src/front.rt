//! The fronts of lines: what precedes a value on its line, after the spaces of eight levels. A line
//! of depth eight or less begins with a suffix of a front, which has as many spaces as the line
//! needs, and is written by one call. For a deeper line the spaces are written first, level by
//! level. The rule is in `docs/formats.md`, "Dump text": two spaces for each level, `name: ` before
//! a value, `- ` before an entry; the names are those of "Schemas". The eight levels in each front
//! only save time. In the clauses 8 is `FRONT_LEVELS`.

ghost use Rattle.std.specs.Prelude.{◌≡◌, ◌++◌, codes};
ghost use Rattle.adb_dump.specs.Margin.{margin};
ghost use Rattle.adb_view.specs.Schema.{field_name_text};

use adb_schema::FieldName;

/// How many levels of two spaces each front has. Any number is correct: it decides which lines are
/// begun by one call.
pub(crate) const FRONT_LEVELS: u32 = 8;

/// How many spaces each front has: two for each level.
pub(crate) const FRONT_LEN: usize = 16;

/// The front of a line that has only spaces before its value: sixteen spaces.
pub(crate) fn blank_front() -> &'static [u8]
    ensures { result.now ≡ margin 8 }
{
    b"                "
}

/// The front of an entry of an array: sixteen spaces, a dash and a space.
pub(crate) fn dash_front() -> &'static [u8]
    ensures { result.now ≡ margin 8 ++ codes "- " }
{
    b"                - "
}

/// The front of a field whose value is on its line: sixteen spaces, the field's name, a colon and a
/// space.
pub(crate) fn name_front(name: FieldName) -> &'static [u8]
    ensures { result.now ≡ margin 8 ++ field_name_text name ++ codes ": " }
{
    match name {
        FieldName::Name => b"                name: ",
        FieldName::Version => b"                version: ",
        FieldName::Match => b"                match: ",
        FieldName::Mode => b"                mode: ",
        FieldName::User => b"                user: ",
        FieldName::Group => b"                group: ",
        FieldName::Xattrs => b"                xattrs: ",
        FieldName::Hashes => b"                hashes: ",
        // Sixteen spaces, the name of the field, a colon and a space.
        FieldName::Description => b"                description: ",
        FieldName::Arch => b"                arch: ",
        FieldName::License => b"                license: ",
        FieldName::Origin => b"                origin: ",
        FieldName::Maintainer => b"                maintainer: ",
        FieldName::Url => b"                url: ",
        FieldName::RepoCommit => b"                repo-commit: ",
        // Sixteen spaces, the name of the field, a colon and a space.
        FieldName::BuildTime => b"                build-time: ",
        FieldName::InstalledSize => b"                installed-size: ",
        FieldName::FileSize => b"                file-size: ",
        FieldName::ProviderPriority => b"                provider-priority: ",
        FieldName::Depends => b"                depends: ",
        FieldName::Provides => b"                provides: ",
        FieldName::Replaces => b"                replaces: ",
        // Sixteen spaces, the name of the field, a colon and a space.
        FieldName::InstallIf => b"                install-if: ",
        FieldName::Recommends => b"                recommends: ",
        FieldName::Layer => b"                layer: ",
        FieldName::Tags => b"                tags: ",
        FieldName::Unused => b"                unused: ",
        FieldName::Acl => b"                acl: ",
        FieldName::Size => b"                size: ",
        // Sixteen spaces, the name of the field, a colon and a space.
        FieldName::Mtime => b"                mtime: ",
        FieldName::Target => b"                target: ",
        FieldName::Files => b"                files: ",
        FieldName::Trigger => b"                trigger: ",
        FieldName::PreInstall => b"                pre-install: ",
        FieldName::PostInstall => b"                post-install: ",
        FieldName::PreDeinstall => b"                pre-deinstall: ",
        // Sixteen spaces, the name of the field, a colon and a space.
        FieldName::PostDeinstall => b"                post-deinstall: ",
        FieldName::PreUpgrade => b"                pre-upgrade: ",
        FieldName::PostUpgrade => b"                post-upgrade: ",
        FieldName::Info => b"                info: ",
        FieldName::Paths => b"                paths: ",
        FieldName::Scripts => b"                scripts: ",
        // Sixteen spaces, the name of the field, a colon and a space.
        FieldName::Triggers => b"                triggers: ",
        FieldName::ReplacesPriority => b"                replaces-priority: ",
        FieldName::Packages => b"                packages: ",
        FieldName::PkgnameSpec => b"                pkgname-spec: ",
        FieldName::Removals => b"                removals: ",
        FieldName::Writes => b"                writes: ",
    }
}
