//! How dependencies are read and written: as texts, which world and options use, and as values of a
//! package's information. The rules are in `docs/formats.md`, "Dependencies".

ghost use Rattle.std.specs.Prelude.{◌≡◌, IsTrue, true, is_some, IfSome, ◌++◌, IfOk, OnOk, ◌≤◌, length, not, position};
ghost use Rattle.std.specs.Option.{option_map};
ghost use Rattle.dep_core.specs.Dependency.{is_dependency_name_by_bytes_and_length, is_name_byte, is_tag_byte};
ghost use Rattle.dep_core.specs.DependencyText.{operator_text, dep_text};
ghost use Rattle.dep_core.specs.Reading.{dependency_from_tag_onward, dependency_of, dependency_after_version, dependency_from_operator_onward, dependency_from_name_onward, dependency_after_name, dependency_from_version_onward, is_not_at_sign, is_operator_byte};
ghost use Rattle.dep_core.specs.Meets.{dependency};
ghost use Rattle.dep_core.specs.Value.{is_version_or_empty};
ghost use Rattle.dep_core.specs.ValueReading.{match_bits_of_low_bits_unless_any_version, dependency_of_value};
ghost use Rattle.std.specs.List.{prefix_len};
ghost use Rattle.dep_core.specs.World.{is_blank};

use crate::dep::{
    Dep, is_dependency_name_by_bytes_and_length, is_name_byte, is_tag, is_tag_byte, operator_of,
    operator_text,
};
use base_core::Text;
use std::alloc::{AllocError, Global};
use version_core::{Op, Version};

/// The dependency that a text denotes, as `name`, `!name`, `name@tag>=1.2` or `name>=1.2@tag`. None
/// if and only if the text is no dependency.
#[tactic(auto, unfolding(crate::specs::Reading::dependency_of))]
pub fn read_dep(text: &[u8]) -> Option<Dep<'_>>
    ensures { option_map dependency result ≡ dependency_of text.entry.now }
{
    match text.split_first() {
        Some((b'!', rest)) => dependency_from_name_onward(true, rest),
        Some(_) => dependency_from_name_onward(false, text),
        None => None,
    }
}

/// Reads a dependency from a text that begins with its name. `conflict` says whether a `!` preceded
/// the name.
#[tactic(auto, unfolding(crate::specs::Reading::dependency_from_name_onward))]
fn dependency_from_name_onward(conflict: bool, text: &[u8]) -> Option<Dep<'_>>
    // The result is the dependency, or None, that the definition with this name gives.
    ensures { option_map dependency result ≡ dependency_from_name_onward conflict text.entry.now }
{
    let (name, rest) = text.split_at(name_len(text));
    if !is_dependency_name_by_bytes_and_length(name) {
        return None;
    }
    dependency_after_name(Dep::dependency_on_any_version(conflict, name), rest)
}

/// Reads the text after the name: a tag, an operator with a version, or nothing. `dep` is the
/// dependency as read so far, here and in the functions below.
#[tactic(auto, unfolding(crate::specs::Reading::dependency_after_name))]
fn dependency_after_name<'a>(dep: Dep<'a>, text: &'a [u8]) -> Option<Dep<'a>>
    // The result is the dependency, or None, that the definition with this name gives.
    ensures { option_map dependency result
        ≡ dependency_after_name (dependency dep.entry) text.entry.now }
{
    match text.split_first() {
        None => Some(dep),
        Some((b'@', rest)) => dependency_from_tag_onward(dep, rest),
        Some(_) => dependency_from_operator_onward(dep, text),
    }
}

/// Reads the text after the `@` that follows the name: a tag, and then an operator with a version,
/// or nothing.
#[tactic(auto, unfolding(crate::specs::Reading::dependency_from_tag_onward))]
fn dependency_from_tag_onward<'a>(dep: Dep<'a>, text: &'a [u8]) -> Option<Dep<'a>>
    // The result is the dependency, or None, that the definition with this name gives.
    ensures { option_map dependency result
        ≡ dependency_from_tag_onward (dependency dep.entry) text.entry.now }
{
    let (tag, rest) = text.split_at(tag_len(text));
    if !is_tag(tag) {
        return None;
    }
    dependency_from_operator_onward(dep.with_tag(tag), rest)
}

/// Reads the text after the name and its tag: an operator with a version, or nothing.
#[tactic(auto, unfolding(crate::specs::Reading::dependency_from_operator_onward))]
fn dependency_from_operator_onward<'a>(dep: Dep<'a>, text: &'a [u8]) -> Option<Dep<'a>>
    // The result is the dependency, or None, that the definition with this name gives.
    ensures { option_map dependency result
        ≡ dependency_from_operator_onward (dependency dep.entry) text.entry.now }
{
    if text.is_empty() {
        return Some(dep);
    }
    let (operator, rest) = text.split_at(operator_len(text));
    let op = operator_of(operator)?;
    dependency_from_version_onward(dep, op, rest)
}

/// Reads the text after the operator `op`: a version, and then a tag or nothing.
#[tactic(auto, unfolding(crate::specs::Reading::dependency_from_version_onward))]
fn dependency_from_version_onward<'a>(dep: Dep<'a>, op: Op, text: &'a [u8]) -> Option<Dep<'a>>
    // The operator is one that has a text.
    requires { IsTrue (is_some (operator_text op)) }
    // The result is the dependency, or None, that the definition with this name gives.
    ensures { option_map dependency result
        ≡ dependency_from_version_onward (dependency dep.entry) op text.entry.now }
{
    let (version, rest) = text.split_at(len_before_at_sign(text));
    let version = Version::read(version)?;
    dependency_after_version(dep.with_constraint(version, op), rest)
}

/// Reads the text after the version: `@` and a tag, or nothing. A tag is refused here if the name
/// was already followed by one.
#[tactic(auto, unfolding(crate::specs::Reading::dependency_after_version))]
fn dependency_after_version<'a>(dep: Dep<'a>, text: &'a [u8]) -> Option<Dep<'a>>
    // The result is the dependency, or None, that the definition with this name gives.
    ensures { option_map dependency result
        ≡ dependency_after_version (dependency dep.entry) text.entry.now }
{
    match text.split_first() {
        None => Some(dep),
        Some((b'@', tag)) if dep.tag.is_none() && is_tag(tag) => Some(dep.with_tag(tag)),
        Some(_) => None,
    }
}

/// The bit of a match number that marks a conflict: 16, above the four bits of the operator. All
/// match numbers are below 32.
const CONFLICT: u64 = 16;

/// The dependency that three values in a package's information denote: a name, a version, which may
/// be empty, and a match number (`matching`). The low four bits of the match number are those of
/// the operator, and 16 marks a conflict. With the low bits 7 or 15 any version is accepted. The
/// low bits 0 count as 1, and 8, 10, 12 as 9, 11, 13. The result is None if and only if one of
/// these holds: the name is no name; the version is neither empty nor a version; the match number
/// is above 31; its low bits are 6 or 14.
#[tactic(auto, unfolding(crate::specs::ValueReading::dependency_of_value))]
pub fn dep_of<'a>(name: &'a [u8], version: &'a [u8], matching: u64) -> Option<Dep<'a>>
    // The result is the dependency, or None, that the definition with this name gives.
    ensures { option_map dependency result
        ≡ dependency_of_value name.entry.now version.entry.now matching }
{
    if !is_dependency_name_by_bytes_and_length(name) || !is_version_or_empty(version) {
        return None;
    }
    dep_of_parts(name, version, matching)
}

/// The result of `dep_of` for a name and a version that are known to be valid, so that their bytes
/// are not tested again.
#[tactic(auto, unfolding(crate::specs::ValueReading::dependency_of_value))]
pub fn dep_of_parts<'a>(name: &'a [u8], version: &'a [u8], matching: u64) -> Option<Dep<'a>>
    // The name is allowed for a dependency.
    requires name { is_dependency_name_by_bytes_and_length name.now ≡ true }
    // The version is valid, or empty.
    requires version { is_version_or_empty version.now ≡ true }
    // The result is the dependency, or None, that the definition with this name gives.
    ensures { option_map dependency result
        ≡ dependency_of_value name.entry.now version.entry.now matching }
{
    if matching >= 2 * CONFLICT {
        return None;
    }
    // The low four bits are match bits. `Op::of` refuses those that no operator has.
    let low = Op::of((matching % CONFLICT) as u8)?;
    let dep = Dep::dependency_on_any_version(matching >= CONFLICT, name);
    if version.is_empty() {
        return Some(dep);
    }
    match wanted_op(low) {
        Some(op) => Some(dep.with_constraint(Version::of(version), op)),
        None => Some(dep),
    }
}

/// Whether a text is empty or a version.
fn is_version_or_empty(text: &[u8]) -> bool
    ensures { result ≡ is_version_or_empty text.now }
{
    text.is_empty() || Version::read(text).is_some()
}

/// The operator that the low four bits (`low`) of a match number denote; None if they accept any
/// version.
fn wanted_op(low: Op) -> Option<Op>
    ensures bits { result ≡ match_bits_of_low_bits_unless_any_version low }
    // An operator that is returned can be written as a text.
    ensures has_text { IfSome result (λ op. IsTrue (is_some (operator_text op))) }
{
    match low.bits() {
        // Any version is accepted.
        7 | 15 => None,
        // The operator `=`.
        0 => Op::of(1),
        // A fuzzy match accepts equal versions too.
        8 => Op::of(9),
        10 => Op::of(11),
        12 => Op::of(13),
        _ => Some(low),
    }
}

/// The text that a dependency is written as. `read_dep` reads this text as the same dependency.
pub fn dep_text(alloc: Global, dep: &Dep<'_>) -> Result<Text, AllocError>
    ensures { IfOk result (λ text. text ≡ dep_text (dependency dep.now)) }
{
    let mut text = Vec::new(alloc);
    append_dep(&mut text, dep)?;
    Text::of(alloc, &text)
}

/// Appends the text of a dependency.
pub fn append_dep(text: &mut Vec<u8>, dep: &Dep<'_>) -> Result<(), AllocError>
    ensures { OnOk result (text.new.items ≡ text.old.items ++ dep_text (dependency dep.now)) }
{
    if dep.conflict {
        text.push(b'!')?;
    }
    text.extend_from_slice(dep.name)?;
    if let Some(tag) = dep.tag {
        text.push(b'@')?;
        text.extend_from_slice(tag)?;
    }
    if let Some(version) = &dep.version {
        text.extend_from_slice(operator_text(dep.op))?;
        text.extend_from_slice(version.text())?;
    }
    Ok(())
}

/// The length of the longest prefix whose bytes a name may have.
#[tactic(auto, using(crate::proofs::Prefixes::len_at))]
pub fn name_len(text: &[u8]) -> usize
    ensures len { result ≡ prefix_len is_name_byte text.now }
    // The result is at most the length of the text.
    ensures within { result ≤ length text.now }
{
    name_end(text).unwrap_or(text.len())
}

/// The index of the first byte that a name may not have; None if there is no such byte.
fn name_end(text: &[u8]) -> Option<usize>
    ensures { result ≡ position (λ b. not (is_name_byte b)) text.now }
{
    text.iter().position(|byte| !is_name_byte(*byte))
}

/// The length of the longest prefix whose bytes a tag may have.
#[tactic(auto, using(crate::proofs::Prefixes::len_at))]
pub fn tag_len(text: &[u8]) -> usize
    ensures len { result ≡ prefix_len is_tag_byte text.now }
    // The result is at most the length of the text.
    ensures within { result ≤ length text.now }
{
    tag_end(text).unwrap_or(text.len())
}

/// The index of the first byte that a tag may not have; None if there is no such byte.
fn tag_end(text: &[u8]) -> Option<usize>
    ensures { result ≡ position (λ b. not (is_tag_byte b)) text.now }
{
    text.iter().position(|byte| !is_tag_byte(*byte))
}

/// The length of the longest prefix whose bytes all occur in operators.
#[tactic(auto, using(crate::proofs::Prefixes::len_at))]
pub fn operator_len(text: &[u8]) -> usize
    ensures len { result ≡ prefix_len is_operator_byte text.now }
    // The result is at most the length of the text.
    ensures within { result ≤ length text.now }
{
    operator_end(text).unwrap_or(text.len())
}

/// The index of the first byte that occurs in no operator; None if there is no such byte.
fn operator_end(text: &[u8]) -> Option<usize>
    ensures { result ≡ position (λ b. not (is_operator_byte b)) text.now }
{
    text.iter().position(|byte| !is_operator_byte(*byte))
}

/// Whether this byte occurs in an operator: `<`, `=`, `>` or `~`.
fn is_operator_byte(byte: u8) -> bool
    ensures { result ≡ is_operator_byte byte }
{
    matches!(byte, b'<' | b'=' | b'>' | b'~')
}

/// How many bytes precede the first `@`; all bytes if there is no `@`.
#[tactic(auto, using(crate::proofs::Prefixes::len_at))]
pub fn len_before_at_sign(text: &[u8]) -> usize
    ensures len { result ≡ prefix_len is_not_at_sign text.now }
    // The result is at most the length of the text.
    ensures within { result ≤ length text.now }
{
    at_sign(text).unwrap_or(text.len())
}

/// The index of the first `@`; None if there is none.
fn at_sign(text: &[u8]) -> Option<usize>
    ensures { result ≡ position (λ b. not (is_not_at_sign b)) text.now }
{
    text.iter().position(|byte| *byte == b'@')
}

/// How many spaces and tabs a text begins with.
#[tactic(auto, using(crate::proofs::Prefixes::len_at))]
pub fn blank_len(text: &[u8]) -> usize
    ensures len { result ≡ prefix_len is_blank text.now }
    // The result is at most the length of the text.
    ensures within { result ≤ length text.now }
{
    blank_end(text).unwrap_or(text.len())
}

/// The index of the first byte that is neither a space nor a tab; None if there is none.
fn blank_end(text: &[u8]) -> Option<usize>
    ensures { result ≡ position (λ b. not (is_blank b)) text.now }
{
    text.iter().position(|byte| !is_blank(*byte))
}

/// Whether a byte is a space or a tab.
pub fn is_blank(byte: u8) -> bool
    ensures { result ≡ is_blank byte }
{
    matches!(byte, b' ' | b'\t')
}
