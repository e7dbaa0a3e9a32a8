//! `version` compares two versions, or checks texts for being versions. The rules are in
//! `docs/commands.md`, "`version --test VERSION VERSION`" and "`version --check TEXT..`", and the
//! order in `docs/formats.md`, "Versions".
ghost use Rattle.std.specs.Prelude.{◌≡◌, ◌++◌, length, true, IfOk, OnOk};
ghost use Rattle.apk_front.specs.Verdicts.{as_outcome};
ghost use Rattle.base_core.specs.Files.{Files};
ghost use Rattle.outcome.specs.Outcome.{outcome_without_commit, just_report_unless_refusal};
ghost use Rattle.outcome.specs.Version.{line_if_invalid_version, invalid_version_lines, order_line, version_order_report, version, version_refusal};

use crate::answer::Verdict;
use base_core::Text;
use command_core::{Flags, Operands};
use report_core::Refusal;
use std::alloc::{AllocError, Global};
use std::cmp::Ordering;
use version_core::Version;

/// The verdict of `version`: the order of the two operands (`--test`), or the operands that are no
/// versions (`--check`).
pub(crate) fn version(
    alloc: Global,
    flags: Flags,
    operands: &Operands,
) -> Result<Verdict, AllocError>
    // With `--test` there are exactly two operands.
    requires { flags.test ≡ true → length operands.now ≡ 2 }
    // The verdict is that of the outcome, whatever the files are.
    ensures { IfOk result (λ verdict. (files : Files)
        → as_outcome files verdict ≡ version files flags operands.now) }
{
    if flags.test {
        compare(alloc, operands)
    } else {
        check(alloc, operands)
    }
}

// The verdict of `--test`: the order of two versions, or the refusal of the first operand that is
// no version.
fn compare(alloc: Global, operands: &Operands) -> Result<Verdict, AllocError>
    // There are exactly two operands.
    requires { length operands.now ≡ 2 }
    // The verdict is that of the specification, whatever the files are.
    ensures { IfOk result (λ verdict. (files : Files) → as_outcome files verdict
        ≡ just_report_unless_refusal files (version_refusal operands.now)
        (version_order_report operands.now)) }
{
    // Each operand that is no version is refused with its place on the command line, the first one
    // first.
    let (first, second) = (operands.get(0), operands.get(1));
    let Some(version) = Version::read(first.text.as_bytes()) else {
        let place = first.place;
        return Ok(Verdict::refused(alloc, Refusal::VersionBad { place }));
    };
    let Some(other) = Version::read(second.text.as_bytes()) else {
        let place = second.place;
        return Ok(Verdict::refused(alloc, Refusal::VersionBad { place }));
    };
    let line = order_line(version.compare(&other));
    Ok(Verdict::reported(Text::of(alloc, line)?))
}

// The line with the order of two versions.
fn order_line(order: Ordering) -> &'static [u8]
    ensures { result.now ≡ order_line order }
{
    match order {
        Ordering::Less => b"<\n",
        Ordering::Equal => b"=\n",
        Ordering::Greater => b">\n",
    }
}

// The verdict of `--check`: the operands that are no versions, and the refusal of the first of
// them.
fn check(alloc: Global, operands: &Operands) -> Result<Verdict, AllocError>
    // The verdict is that of the specification, whatever the files are.
    ensures { IfOk result (λ verdict. (files : Files) → as_outcome files verdict
        ≡ outcome_without_commit (version_refusal operands.now)
        (invalid_version_lines operands.now) files) }
{
    let report = lines(alloc, operands)?;
    let refusal = first_refusal(operands);
    Ok(Verdict { report, refusal })
}

// The refusal of the first operand that is no version.
fn first_refusal(operands: &Operands) -> Option<Refusal>
    ensures { result ≡ version_refusal operands.now }
{
    for i in 0..operands.len() {
        let operand = operands.get(i);
        if Version::read(operand.text.as_bytes()).is_none() {
            let place = operand.place;
            return Some(Refusal::VersionBad { place });
        }
    }
    None
}

// The report of `--check`: a line for each operand that is no version.
fn lines(alloc: Global, operands: &Operands) -> Result<Text, AllocError>
    ensures { IfOk result (λ report. report ≡ invalid_version_lines operands.now) }
{
    let mut report = Vec::new(alloc);
    for i in 0..operands.len() {
        add_line(&mut report, operands.get(i).text.as_bytes())?;
    }
    Ok(Text::from_vec(report))
}

// Adds the line of a text that is no version; for a version nothing is added.
fn add_line(report: &mut Vec<u8>, text: &[u8]) -> Result<(), AllocError>
    ensures { OnOk result (report.new.items ≡ report.old.items
        ++ line_if_invalid_version text.now) }
{
    if Version::read(text).is_some() {
        return Ok(());
    }
    report.extend_from_slice(text)?;
    report.extend_from_slice(b"\n")
}
