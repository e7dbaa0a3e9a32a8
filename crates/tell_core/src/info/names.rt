//! The names of all packages, which `info` without operands prints. The rule is in
//! `docs/commands.md`, "`info`", the first row of its table.
ghost use Rattle.candidate_core.specs.adb_fields.Repeated.{package_name};
ghost use Rattle.adb_view.specs.Plain.{Plain};
ghost use Rattle.file_owners.specs.db_core.Seen.{packages_of};
ghost use Rattle.tell_core.specs.Info.{report_and_refusal, sorted_package_name_lines};
ghost use Rattle.base_core.specs.ByteOrder.{bytes_cmp};
ghost use Rattle.base_core.specs.Sorted.{sorted_by};
ghost use Rattle.report_core.specs.Reports.{report_lines};
ghost use Rattle.std.specs.Prelude.{◌≡◌, ◌<◌, ◌++◌, None, Some, length, map, slice_get, IfOk, OnOk};

use crate::info::package::push_line;
use crate::info::reporting::ReportAndRefusal;
use base_core::Text;
use candidate_core::PackageView;
use file_owners::Db;
use std::alloc::{AllocError, Global};
use std::marker::PhantomData;

/// The report of `info` without operands: a line for each package, in byte order of their names.
pub(crate) fn report_names(alloc: Global, db: &Db<'_>) -> Result<ReportAndRefusal, AllocError>
    ensures { IfOk result (λ done. done
        ≡ report_and_refusal (sorted_package_name_lines (packages_of db.now))
        None) }
{
    let mut names = names_of(alloc, db)?;
    sort_names(&mut names)?;
    let mut report = Vec::new(alloc);
    push_lines(&mut report, &names)?;
    Ok(ReportAndRefusal {
        report: Text::from_vec(report),
        following_refusal: None,
    })
}

// The names of the packages, in the order of the packages in the database.
fn names_of<'a>(alloc: Global, db: &Db<'a>) -> Result<Vec<&'a [u8]>, AllocError>
    ensures { IfOk result (λ names. map (λ n. n.now) names.items
        ≡ map package_name (packages_of db.now)) }
{
    let mut names = Vec::with_capacity(alloc, db.len())?;
    for i in 0..db.len() {
        names.push(name_at(db, i, PhantomData))?;
    }
    Ok(names)
}

// The name of the package at a place, counted from 0. The argument `_mark` serves only the borrow
// checker: it does not know the parts of a view that is made and lent here unless the signature
// names the view as an argument.
fn name_at<'a>(db: &Db<'a>, i: usize, _mark: PhantomData<PackageView<'a>>) -> &'a [u8]
    requires { i < length (packages_of db.now) }
    ensures { (pkg : Plain) → slice_get (packages_of db.now) i ≡ Some pkg
        → result.now ≡ package_name pkg }
{
    let pkg = db.package(i);
    pkg.info().name()
}

// Sorts names in byte order. Names that are in order are only compared.
fn sort_names(names: &mut Vec<&[u8]>) -> Result<(), AllocError>
    ensures { IfOk result (λ _. map (λ n. n.now) names.new.items
        ≡ sorted_by bytes_cmp (map (λ n. n.now) names.old.items)) }
{
    names.sort_by(|one, other| one.cmp(other))?;
    Ok(())
}

// Appends a line for each name, in the order given.
fn push_lines(report: &mut Vec<u8>, names: &[&[u8]]) -> Result<(), AllocError>
    ensures { OnOk result (report.new.items
        ≡ report.old.items ++ report_lines (map (λ n. n.now) names.now)) }
{
    for i in 0..names.len() {
        push_line(report, names[i])?;
    }
    Ok(())
}
