//! The report of `info` on the packages of its operands, and the place of the package that an
//! operand means. `reporting` calls the reports. The rules are in `docs/commands.md`, "`info`".

ghost use Rattle.file_owners.specs.db_core.Seen.{packages_of};
ghost use Rattle.tell_core.specs.Info.{report_and_refusal, info_refusal, info_unless_refused, operands_info, package_info_for_operand_text};
ghost use Rattle.tell_core.specs.InfoPackages.{package_meant_by_operand_text, package_named, path_owner};
ghost use Rattle.report_core.specs.declared.refusal.Refusal.TheVariants.{NotInstalled};
ghost use Rattle.std.specs.Option.{option_map_or, option_or, option_and_then};
ghost use Rattle.std.specs.Prelude.{◌≡◌, ◌++◌, [], None, Some, if◌then◌else◌, is_some, IfOk, ◌<◌, length, slice_get, IfSome};
ghost use Rattle.file_owners.specs.db_core.Packages.{is_package_named, lists_path};
ghost use Rattle.dep_core.specs.LeadingSlash.{without_leading_slash};

use crate::info::package::push_package;
use crate::info::reporting::{Form, ReportAndRefusal};
use base_core::{Name, Text};
use command_core::Operands;
use dep_core::without_leading_slash;
use file_owners::Db;
use report_core::Refusal;
use std::alloc::{AllocError, Global};
use std::marker::PhantomData;

/// The report of a form other than `-e` on all operands. If the package of an operand is not
/// installed, the result is only the refusal of the first such operand.
pub(crate) fn report_operands(
    alloc: Global,
    form: Form,
    operands: &Operands,
    db: &Db<'_>,
) -> Result<Result<ReportAndRefusal, Refusal>, AllocError>
    // The refusal of the first operand that is not installed, or the lines of all operands.
    ensures { IfOk result (λ told. told ≡ info_unless_refused
        (info_refusal form (packages_of db.now) operands.now)
        (operands_info form (packages_of db.now) operands.now)) }
{
    let mut report = Vec::new(alloc);
    for i in 0..operands.len() {
        let operand = operands.get(i);
        if !push_operand(alloc, &mut report, form, db, operand.text.as_bytes())? {
            return Ok(Err(Refusal::NotInstalled {
                place: operand.place,
            }));
        }
    }
    Ok(Ok(ReportAndRefusal {
        report: Text::from_vec(report),
        following_refusal: None,
    }))
}

/// The report of `-e` on the operands whose packages are installed, followed by the refusal of the
/// first operand whose package is not installed.
pub(crate) fn report_installed(
    alloc: Global,
    form: Form,
    operands: &Operands,
    db: &Db<'_>,
) -> Result<ReportAndRefusal, AllocError>
    // The lines of all operands that are installed, and the refusal of the first that is not.
    ensures { IfOk result (λ done. done ≡ report_and_refusal
        (operands_info form (packages_of db.now) operands.now)
        (info_refusal form (packages_of db.now) operands.now)) }
{
    let mut report = Vec::new(alloc);
    let mut following_refusal = None;
    for i in 0..operands.len() {
        let operand = operands.get(i);
        let is_told = push_operand(alloc, &mut report, form, db, operand.text.as_bytes())?;
        following_refusal = refusal_after(following_refusal, is_told, operand.place);
    }
    Ok(ReportAndRefusal {
        report: Text::from_vec(report),
        following_refusal,
    })
}

// The refusal so far; if there is none and the operand at this place has no report, the refusal of
// this operand.
fn refusal_after(following_refusal: Option<Refusal>, is_told: bool, place: u32) -> Option<Refusal>
    // `is_told` says whether the operand has a report: its package is installed.
    ensures { result ≡ option_or following_refusal (if is_told then None else Some (NotInstalled
        place)) }
{
    if is_told || following_refusal.is_some() {
        return following_refusal;
    }
    Some(Refusal::NotInstalled { place })
}

// Appends the report of a form on the package of an operand, and returns whether this package is
// installed. `text` is the operand's text.
fn push_operand(
    alloc: Global,
    report: &mut Vec<u8>,
    form: Form,
    db: &Db<'_>,
    text: &[u8],
) -> Result<bool, AllocError>
    // The result says whether the package that the operand means is installed.
    ensures found { IfOk result
        (λ found. found ≡ is_some (package_meant_by_operand_text form
        (packages_of db.now) text.now)) }
    // What the operand asks for is appended, if the package is installed.
    ensures told { IfOk result (λ _. report.new.items ≡ report.old.items
        ++ option_map_or (package_info_for_operand_text form text.now)
        (package_meant_by_operand_text form (packages_of db.now) text.now) []) }
{
    match place_asked(alloc, form, db, text)? {
        Some(place) => {
            push_package(alloc, report, form, db, place, text, PhantomData)?;
            Ok(true)
        }
        None => Ok(false),
    }
}

/// The place of the package that an operand means, counted from 0; None if no such package is
/// installed. `text` is the operand's text. Memory is allocated only for a path.
pub(crate) fn place_asked(
    alloc: Global,
    form: Form,
    db: &Db<'_>,
    text: &[u8],
) -> Result<Option<usize>, AllocError>
    // At a returned place is the package that the operand means; None if it is not installed.
    ensures found { IfOk result (λ place. option_and_then (slice_get (packages_of db.now)) place
        ≡ package_meant_by_operand_text form (packages_of db.now) text.now) }
    // A place is that of a package of the database.
    ensures within { IfOk result
        (λ place. IfSome place (λ i. i < length (packages_of db.now))) }
{
    match form {
        Form::Owner => place_of_owner(alloc, db, without_leading_slash(text)),
        _ => Ok(place_of_name(db, text)),
    }
}

// The place of the package with a name, counted from 0; None if no package has the name.
fn place_of_name(db: &Db<'_>, name: &[u8]) -> Option<usize>
    // At a returned place is the package with this name; None if there is none.
    ensures found { option_and_then (slice_get (packages_of db.now)) result
        ≡ package_named (packages_of db.now) name.now }
    ensures within { IfSome result (λ i. i < length (packages_of db.now)) }
{
    db.find(name)
}

// The place of the package that lists a path, counted from 0; None if no package lists it, or if
// the path is no name.
fn place_of_owner(alloc: Global, db: &Db<'_>, path: &[u8]) -> Result<Option<usize>, AllocError>
    // At a returned place is the package that lists this path; None if there is none.
    ensures found { IfOk result (λ place. option_and_then (slice_get (packages_of db.now)) place
        ≡ path_owner (packages_of db.now) path.now) }
    // A returned place is that of a package of the database.
    ensures within { IfOk result
        (λ place. IfSome place (λ i. i < length (packages_of db.now))) }
{
    match Name::read(alloc, path)? {
        Some(path) => Ok(db.owner_of(&path)),
        None => Ok(None),
    }
}
