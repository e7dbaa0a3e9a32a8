//! The report of `info`: which form a command selects, the report of each form, and laws about
//! refusals, owners and names. The rules are in `docs/commands.md`, "`info`".

ghost use Rattle.file_owners.specs.db_core.Seen.{packages_of};
ghost use Rattle.tell_core.specs.Info.{form_info, info_of};
ghost use Rattle.std.specs.Prelude.{◌≡◌, IfOk, ℕ, List, true, Some, Ok, Err};
ghost use Rattle.tell_core.specs.InfoForm.{info_form_of_flags};
ghost use Rattle.candidate_core.specs.adb_fields.FirstPair.{IsIn};
ghost use Rattle.candidate_core.specs.adb_fields.Once.{HasNoForbiddenRepeatedName};
ghost use Rattle.candidate_core.specs.adb_fields.Repeated.{entries_of_field_at_index, package_name, paths_of_package_files};
ghost use Rattle.adb_view.specs.FieldIndexes.{IDB_PACKAGES_INDEX};
ghost use Rattle.adb_view.specs.declared.tables.Which.TheVariants.{Idb};
ghost use Rattle.adb_view.specs.Plain.{Plain};
ghost use Rattle.command_core.specs.Command.{CommandLine};
ghost use Rattle.tell_core.specs.InfoPackages.{package_named, path_owner};
ghost use Rattle.tell_core.specs.InfoRefusals.{IsNotInstalledRefusalOfOperand};
ghost use Rattle.tell_core.specs.declared.info.reporting.ReportAndRefusal.{ReportAndRefusal};
ghost use Rattle.report_core.specs.declared.refusal.Refusal.{Refusal};

use crate::info::names::report_names;
use crate::info::operands::{report_installed, report_operands};
use base_core::Text;
use command_core::{Command, Flags, Operands};
use file_owners::Db;
use report_core::Refusal;
use std::alloc::{AllocError, Global};

/// The report of `info` on the packages of a database. Without operands, and in the form of
/// descriptions, it has the names of all packages, in byte order. With operands, it has what the
/// flags select of each operand's package, in the order given.
///
/// The function reads only the requested packages. For the owner of a path it searches all paths
/// that the database lists, once.
///
/// # Errors
///
/// Within the result, `NotInstalled` at the first operand whose package is not installed. `info -e`
/// returns this refusal after its report. Otherwise out of memory.
#[tactic(auto, unfolding(crate::specs::Info::info_of))]
pub(crate) fn info_of(
    alloc: Global,
    command: &Command,
    db: &Db<'_>,
) -> Result<Result<ReportAndRefusal, Refusal>, AllocError>
    ensures { IfOk result (λ told. told ≡ info_of command.now (packages_of db.now)) }
{
    report_form(alloc, Form::of(command.flags()), command.operands(), db)
}

// The report of one form of `info` on the packages of a database, for these operands.
fn report_form(
    alloc: Global,
    form: Form,
    operands: &Operands,
    db: &Db<'_>,
) -> Result<Result<ReportAndRefusal, Refusal>, AllocError>
    ensures { IfOk result (λ told. told ≡ form_info form (packages_of db.now) operands.now) }
{
    match form {
        Form::Installed => {
            let done = report_installed(alloc, form, operands, db)?;
            Ok(Ok(done))
        }
        Form::Description if operands.is_empty() => {
            let done = report_names(alloc, db)?;
            Ok(Ok(done))
        }
        _ => report_operands(alloc, form, operands, db),
    }
}

/// The form of an `info`: what it prints.
#[derive(Clone, Copy)]
pub(crate) enum Form {
    /// The descriptions of packages; without operands, the names of all installed ones.
    Description,
    /// The paths that packages list.
    Contents,
    /// The dependencies of packages.
    Depends,
    /// Which of the given names are installed.
    Installed,
    /// Which package owns a path.
    Owner,
}

impl Form {
    /// The form that the flags select; at most one of these flags is given.
    pub(crate) fn of(flags: Flags) -> Form
        ensures { result ≡ info_form_of_flags flags }
    {
        if flags.who_owns {
            return Form::Owner;
        }
        if flags.installed {
            return Form::Installed;
        }
        if flags.contents {
            return Form::Contents;
        }
        if flags.depends {
            return Form::Depends;
        }
        Form::Description
    }
}

/// What `info` prints, and the refusal that follows it, if there is one.
#[derive(Drop)]
pub struct ReportAndRefusal {
    /// What is printed on standard output.
    pub report: Text,
    /// A refusal that follows the report. Only `info -e` has one.
    pub following_refusal: Option<Refusal>,
}

/// `info` is refused only because the package of an operand is not installed. Only `info -e` has
/// this refusal after its report.
pub fn info_refuses_only_for_an_operand()
    // A refusal in place of the report is that of an operand.
    ensures refused { (c : CommandLine) (packages : List Plain) (refusal : Refusal)
        → info_of c packages ≡ Err refusal → IsNotInstalledRefusalOfOperand c.operands refusal }
    // A refusal after the report is that of an operand, and the command is `info -e`.
    ensures following_refusal { (c : CommandLine) (packages : List Plain) (done : ReportAndRefusal)
        (refusal : Refusal) → info_of c packages ≡ Ok done → done.following_refusal ≡ Some refusal
        → (c.flags.installed ≡ true) × IsNotInstalledRefusalOfOperand c.operands refusal }
{}

/// A package that owns a path is installed and lists the path. If no path is repeated, as in a
/// database, each package that lists a path owns it.
pub fn owners_are_those_that_list_a_path()
    // In any list of packages, the owner of a path is in the list, and lists the path.
    ensures owner { (packages : List Plain) (path : List ℕ) (pkg : Plain)
        → path_owner packages path ≡ Some pkg
        → IsIn pkg packages × IsIn path (paths_of_package_files pkg) }
    // In a database, each package that lists a path is its owner.
    ensures lister { (database pkg : Plain) (path : List ℕ)
        → HasNoForbiddenRepeatedName Idb database
        → IsIn pkg (entries_of_field_at_index IDB_PACKAGES_INDEX database)
        → IsIn path (paths_of_package_files pkg)
        → path_owner (entries_of_field_at_index IDB_PACKAGES_INDEX database) path ≡ Some pkg }
{}

/// The package that a name means is installed and has this name. If no name is repeated, as in a
/// database, each package is the one that its name means.
pub fn packages_have_the_names_that_ask_for_them()
    // In any list of packages, the package that a name means is in the list, and has the name.
    ensures asked { (packages : List Plain) (name : List ℕ) (pkg : Plain)
        → package_named packages name ≡ Some pkg
        → IsIn pkg packages × (package_name pkg ≡ name) }
    // In a database, each package is the one that its name means.
    ensures named { (database pkg : Plain) → HasNoForbiddenRepeatedName Idb database
        → IsIn pkg (entries_of_field_at_index IDB_PACKAGES_INDEX database)
        → package_named (entries_of_field_at_index IDB_PACKAGES_INDEX database)
        (package_name pkg) ≡ Some pkg }
{}
