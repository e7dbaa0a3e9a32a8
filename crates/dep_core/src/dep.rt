//! Dependencies: their parts, which bytes names and tags have, the texts of operators, and which
//! packages meet a dependency. The rules are in `docs/formats.md`, "Dependencies"; the match bits
//! of an operator in "Versions".

ghost use Rattle.std.specs.Prelude.{IsTrue, ◌≡◌, Some, IfSome, is_some, ◌==◌};
ghost use Rattle.std.specs.Option.{option_copied};
ghost use Rattle.dep_core.specs.Dependency.{dependency_from_parts, begins_with_dash_or_dot, is_dependency_name_by_bytes_and_length, is_name_byte, is_package_name, is_tag, is_tag_byte};
ghost use Rattle.dep_core.specs.DependencyText.{is_dependency, operator_text};
ghost use Rattle.dep_core.specs.Reading.{operator_bits};
ghost use Rattle.std.specs.List.{list_all, list_any};

use version_core::{Op, Version};

/// A dependency: what a package needs, or what it excludes (apk-package(5), "depend").
#[derive(Drop)]
pub struct Dep<'a> {
    /// The name, of 1 to 255 bytes.
    pub name: &'a [u8],
    /// The wanted version. Without one, any version is accepted.
    pub version: Option<Version<'a>>,
    /// The version operator: how a version must compare with the wanted one; `=` if no version is
    /// wanted.
    pub op: Op,
    /// Whether the dependency is a conflict: it excludes the packages that meet it.
    pub conflict: bool,
    /// The tag of the repositories that may supply it. Only dependencies in world have one
    /// (apk-world(5)).
    pub tag: Option<&'a [u8]>,
    // The parts are those of a valid dependency.
    pub ghost in_grammar: { IsTrue (is_dependency
        (dependency_from_parts name.now version op conflict (option_copied tag))) },
}

impl<'a> Dep<'a> {
    ghost use Rattle.std.specs.Prelude.{◌≡◌};
    ghost use Rattle.std.specs.Option.{option_copied};
    ghost use Rattle.dep_core.specs.Reading.{dependency_on_any_version, with_constraint, with_tag};
    ghost use Rattle.dep_core.specs.Meets.{dependency, meets};

    /// Whether a package with this name and this version, if it has one, meets the dependency: the
    /// names are equal, and any version is accepted, or the given one matches. Whether the
    /// dependency is a conflict does not matter.
    pub fn met_by(&self, name: &[u8], version: Option<&Version<'_>>) -> bool
        ensures { result ≡ meets (dependency self.now) name.now (option_copied version.entry) }
    {
        if self.name != name {
            return false;
        }
        let Some(wanted) = &self.version else {
            return true;
        };
        match version {
            None => false,
            Some(found) => found.matches(self.op, wanted),
        }
    }

    /// The dependency on any version of the package `name`; `conflict` says whether it is a
    /// conflict.
    pub(crate) fn dependency_on_any_version(conflict: bool, name: &'a [u8]) -> Dep<'a>
        // The bytes are an allowed name of a dependency.
        requires { IsTrue (is_dependency_name_by_bytes_and_length name.now) }
        ensures { dependency result ≡ dependency_on_any_version conflict name.entry.now }
    {
        Dep {
            name,
            version: None,
            op: equal(),
            conflict,
            tag: None,
        }
    }

    /// This dependency with the given tag instead of its own.
    pub(crate) fn with_tag(self, tag: &'a [u8]) -> Dep<'a>
        // The bytes are an allowed tag.
        requires { IsTrue (is_tag tag.now) }
        ensures { dependency result ≡ with_tag (dependency self.entry) tag.entry.now }
    {
        let mut dep = self;
        dep.tag = Some(tag);
        dep
    }

    /// This dependency with its version and operator replaced.
    pub(crate) fn with_constraint(self, version: Version<'a>, op: Op) -> Dep<'a>
        // The operator can be written as a text.
        requires { IsTrue (is_some (operator_text op)) }
        ensures { dependency result ≡ with_constraint (dependency self.entry) version.entry op }
    {
        let mut dep = self;
        dep.version = Some(version);
        dep.op = op;
        dep
    }
}

/// The operator `=`, whose match bits are 1. A dependency without version has it.
fn equal() -> Op
    ensures { result ≡ 1 }
{
    Op::of(1).unwrap()
}

/// The operator that a text denotes; `=~` and `~=` are other texts of `~`. None if and only if the
/// text is no operator.
pub fn operator_of(text: &[u8]) -> Option<Op>
    ensures bits { result ≡ operator_bits text.now }
    // An operator that is returned can be written as a text.
    ensures has_text { IfSome result (λ op. IsTrue (is_some (operator_text op))) }
{
    match text {
        b"=" => Op::of(1),
        b"<" => Op::of(2),
        b"<=" => Op::of(3),
        b">" => Op::of(4),
        b">=" => Op::of(5),
        b"~" | b"=~" | b"~=" => Op::of(9),
        b"<~" => Op::of(11),
        b">~" => Op::of(13),
        _ => None,
    }
}

/// The text of an operator, which must be one that has a text.
pub fn operator_text(op: Op) -> &'static [u8]
    // The operator can be written as a text.
    requires { IsTrue (is_some (operator_text op)) }
    ensures { operator_text op ≡ Some result.now }
{
    match op.bits() {
        1 => b"=",
        2 => b"<",
        3 => b"<=",
        4 => b">",
        5 => b">=",
        9 => b"~",
        11 => b"<~",
        // By the precondition, only 13 is left.
        _ => b">~",
    }
}

/// Whether the bytes are the name of a dependency: 1 to 255 bytes from 0x21 to 0x7e, none of them
/// `!`, `<`, `=`, `>`, `@` or `~`.
pub fn is_dependency_name_by_bytes_and_length(name: &[u8]) -> bool
    ensures { result ≡ is_dependency_name_by_bytes_and_length name.now }
{
    if name.is_empty() || name.len() > 255 {
        return false;
    }
    has_name_bytes(name)
}

/// Whether a name may have each of the bytes.
fn has_name_bytes(name: &[u8]) -> bool
    ensures { result ≡ list_all is_name_byte name.now }
{
    name.iter().all(|byte| is_name_byte(*byte))
}

/// Whether the bytes are the name of a package: a dependency's name that has no `/` and does not
/// begin with `-` or `.`.
pub fn is_package_name(name: &[u8]) -> bool
    ensures { result ≡ is_package_name name.now }
{
    if !is_dependency_name_by_bytes_and_length(name) || begins_with_dash_or_dot(name) {
        return false;
    }
    !has_slash(name)
}

/// Whether a name has a `/`.
pub fn has_slash(name: &[u8]) -> bool
    ensures { result ≡ list_any (λ b. b == 47) name.now }
{
    name.contains(&b'/')
}

/// Whether the bytes begin with `-` or `.`, as no package's name does.
fn begins_with_dash_or_dot(name: &[u8]) -> bool
    ensures { result ≡ begins_with_dash_or_dot name.now }
{
    match name.first() {
        Some(byte) => *byte == b'-' || *byte == b'.',
        None => false,
    }
}

/// Whether the bytes are a tag: letters, digits, `_`, `-` and `.`, at least one.
pub fn is_tag(tag: &[u8]) -> bool
    ensures { result ≡ is_tag tag.now }
{
    if tag.is_empty() {
        return false;
    }
    has_tag_bytes(tag)
}

/// Whether a tag may have each of the bytes.
fn has_tag_bytes(tag: &[u8]) -> bool
    ensures { result ≡ list_all is_tag_byte tag.now }
{
    tag.iter().all(|byte| is_tag_byte(*byte))
}

/// Whether a byte may be in the name of a dependency.
pub fn is_name_byte(byte: u8) -> bool
    ensures { result ≡ is_name_byte byte }
{
    match byte {
        b'!' | b'<' | b'=' | b'>' | b'@' | b'~' => false,
        0x21..=0x7e => true,
        _ => false,
    }
}

/// Whether a byte may be in a tag.
pub fn is_tag_byte(byte: u8) -> bool
    ensures { result ≡ is_tag_byte byte }
{
    match byte {
        b'_' | b'-' | b'.' => true,
        _ => byte.is_ascii_alphanumeric(),
    }
}
