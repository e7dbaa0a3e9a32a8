//! The command lines that `demo` runs, the number of packages that it makes, and its report. The
//! rules are in `docs/commands.md`, "`demo N`".
//!
//! The contracts bound the number of words before a call that adds some by 16, 32 or 100,000. A
//! list of words holds at most 4,294,967,294, and no command of `demo` comes near this limit.

ghost use Rattle.std.specs.Prelude.{◌≡◌, ◌<◌, ◌++◌, ◌∷◌, [], codes, length, IfOk, OnOk, true, IsTrue, Some};
ghost use Rattle.outcome.specs.DemoLines.{add_words, demo_package_name, demo_package_path, demo_package_paths, demo_version, depends_words, mkndx_words, mkpkg_words, name_if_unneeded_by_first_n_at, names_unneeded_by_first_n_up_to};
ghost use Rattle.std.specs.Str.Parse.{digits_value};
ghost use Rattle.command_core.specs.Operands.{exactly, is_demo_number};
ghost use Rattle.command_core.specs.Sound.{are_allowed_operands};
ghost use Rattle.command_core.specs.declared.operands.OperandKind.TheVariants.{Number};
ghost use Rattle.outcome.specs.DemoCount.{demo_count};
ghost use Rattle.outcome.specs.DemoReport.{demo_line_of_count_and_add_report, last_line};
ghost use Rattle.dep_core.specs.World.{is_line_end};
ghost use Rattle.std.specs.List.{after_last};

use crate::demo::texts::{INDEX, demo_folder, demo_package_path, push_name, push_version};
use base_core::{Text, Words};
use command_core::Operands;
use std::alloc::{AllocError, Global};

/// The command line of `mkpkg` that makes package i.
pub fn mkpkg_words(alloc: Global, i: u16) -> Result<Words, AllocError>
    ensures { IfOk result (λ words. words ≡ mkpkg_words i) }
{
    let mut words = Words::new(alloc);
    push_mkpkg(&mut words, alloc, i)?;
    Ok(words)
}

// Adds the arguments of the command line that makes package i to an empty list.
fn push_mkpkg(words: &mut Words, alloc: Global, i: u16) -> Result<(), AllocError>
    // The list is still empty.
    requires { words.old ≡ [] }
    ensures { OnOk result (words.new ≡ mkpkg_words i) }
{
    words.push(b"mkpkg")?;
    push_option(words, b"-F", &demo_folder(alloc, i)?)?;
    push_option(words, b"-o", &demo_package_path(alloc, i)?)?;
    push_option(words, b"-I", &name_word(alloc, b"name:", i)?)?;
    push_option(words, b"-I", &version_word(alloc, i)?)?;
    push_depends(words, alloc, i)
}

// Adds the option with the dependency of package i, if the package has one.
fn push_depends(words: &mut Words, alloc: Global, i: u16) -> Result<(), AllocError>
    // The list has so few words that more words can be added.
    requires { length words.old < 16 }
    ensures { OnOk result (words.new ≡ words.old ++ depends_words i) }
{
    if i < 2 {
        return Ok(());
    }
    push_option(words, b"-I", &name_word(alloc, b"depends:", i / 2)?)
}

// Adds two arguments to a command line: an option, and its value.
fn push_option(words: &mut Words, option: &[u8], value: &[u8]) -> Result<(), AllocError>
    // The list has so few words that more words can be added.
    requires { length words.old < 32 }
    ensures { OnOk result (words.new ≡ words.old ++ option.now ∷ value.now ∷ []) }
{
    words.push(option)?;
    words.push(value)
}

// An argument of a command line: the bytes `front`, followed by the name of package i.
fn name_word(alloc: Global, front: &[u8], i: u16) -> Result<Vec<u8>, AllocError>
    ensures { IfOk result (λ text. text.items ≡ front.now ++ demo_package_name i) }
{
    let mut text = Vec::from_slice(alloc, front)?;
    push_name(&mut text, i)?;
    Ok(text)
}

// The argument that gives the version of package i.
fn version_word(alloc: Global, i: u16) -> Result<Vec<u8>, AllocError>
    ensures { IfOk result (λ text. text.items ≡ codes "version:" ++ demo_version i) }
{
    let mut text = Vec::from_slice(alloc, b"version:")?;
    push_version(&mut text, i)?;
    Ok(text)
}

/// The command line of `mkndx` that makes the index of n packages.
pub fn mkndx_words(alloc: Global, n: u16) -> Result<Words, AllocError>
    ensures { IfOk result (λ words. words ≡ mkndx_words n) }
{
    let mut words = Words::new(alloc);
    words.push(b"mkndx")?;
    words.push(b"-o")?;
    words.push(INDEX)?;
    push_packages(&mut words, alloc, n)?;
    Ok(words)
}

// Adds the paths of packages 1 to n, as arguments of a command line.
fn push_packages(words: &mut Words, alloc: Global, n: u16) -> Result<(), AllocError>
    // The list has so few words that more words can be added.
    requires { length words.old < 16 }
    ensures { OnOk result (words.new ≡ words.old ++ demo_package_paths n) }
{
    for i in 0..n {
        push_package(words, alloc, i + 1)?;
    }
    Ok(())
}

// Adds the path of package i, as an argument of a command line.
fn push_package(words: &mut Words, alloc: Global, i: u16) -> Result<(), AllocError>
    // The list has so few words that more words can be added.
    requires { length words.old < 100000 }
    ensures { OnOk result (words.new ≡ words.old ++ demo_package_path i ∷ []) }
{
    let name = demo_package_path(alloc, i)?;
    words.push(&name)?;
    Ok(())
}

/// The command line of `add` with the names of those of n packages on which no other one depends.
pub fn add_words(alloc: Global, n: u16) -> Result<Words, AllocError>
    ensures { IfOk result (λ words. words ≡ add_words n) }
{
    let mut words = Words::new(alloc);
    words.push(b"add")?;
    words.push(b"--initdb")?;
    words.push(b"--allow-untrusted")?;
    push_top_names(&mut words, alloc, n)?;
    Ok(words)
}

// Adds the names of those of n packages on which no other one depends, as arguments of a command
// line.
fn push_top_names(words: &mut Words, alloc: Global, n: u16) -> Result<(), AllocError>
    // The list has so few words that more words can be added.
    requires { length words.old < 16 }
    ensures { OnOk result (words.new ≡ words.old ++ names_unneeded_by_first_n_up_to n n) }
{
    for i in 0..n {
        push_if_top(words, alloc, n, i + 1)?;
    }
    Ok(())
}

// Adds the name of package i, if none of the n packages depends on package i.
fn push_if_top(words: &mut Words, alloc: Global, n: u16, i: u16) -> Result<(), AllocError>
    // The list has so few words that more words can be added.
    requires { length words.old < 100000 }
    ensures { OnOk result (words.new ≡ words.old ++ name_if_unneeded_by_first_n_at n i) }
{
    // The first package that depends on package i has the number 2i.
    if 2 * i as u32 <= n as u32 {
        return Ok(());
    }
    let mut name = Vec::new(alloc);
    push_name(&mut name, i)?;
    words.push(&name)?;
    Ok(())
}

/// The number of packages that `demo` makes: its one operand.
#[tactic(auto, using(crate::proofs::DemoNumbers::one_operand))]
pub fn demo_count(operands: &Operands) -> u16
    // The command line was accepted: there is exactly one operand, a number.
    requires { IsTrue (are_allowed_operands (Some (exactly 1 Number)) operands.now) }
    ensures { result ≡ demo_count operands.now }
{
    number_of(operands.get(0).text.as_bytes())
}

// The number that a text has in decimal digits. The number is 1 to 20,000, so it fits into 16 bits.
fn number_of(text: &[u8]) -> u16
    // The text is a number that `demo` accepts.
    requires { IsTrue (is_demo_number text.now) }
    ensures { result ≡ digits_value 10 text.now }
{
    // By the contract the text is such a number, so neither of the two calls fails.
    match str::from_utf8(text) {
        Ok(digits) => match digits.parse::<u32>() {
            Ok(number) => number as u16,
            Err(_) => unreachable!(),
        },
        Err(_) => unreachable!(),
    }
}

/// The line that `demo` prints: that n packages were made, and the last line of `report`, which
/// `add` gave for their installation.
pub fn demo_line_of_count_and_add_report(
    alloc: Global,
    n: u16,
    report: &[u8],
) -> Result<Text, AllocError>
    ensures { IfOk result (λ line. line ≡ demo_line_of_count_and_add_report n report.now) }
{
    let head = format!(in alloc; "demo {n}: ")?;
    let mut line = Vec::from_slice(alloc, head.as_bytes())?;
    line.extend_from_slice(last_line(report))?;
    line.extend_from_slice(b"\n")?;
    Ok(Text::from_vec(line))
}

// The last line of a report, without its line end.
fn last_line(report: &[u8]) -> &[u8]
    ensures { result.now ≡ last_line report.now }
{
    // The last byte of a report is a line end.
    behind_lines(&report[..report.len().saturating_sub(1)])
}

// The bytes after the last line end of a text.
fn behind_lines(text: &[u8]) -> &[u8]
    ensures { result.now ≡ after_last is_line_end text.now }
{
    let mut start = text.len();
    while start > 0 && text[start - 1] != b'\n' {
        start -= 1;
    }
    &text[start..]
}
