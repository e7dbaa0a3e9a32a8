//! The scripts that a change would run.
//! The rule is in `docs/commands.md`, "`add` and `del`", part "What is refused":
//! which scripts a package has to run that is installed, removed, or gets another version.
ghost use Rattle.package_verifier.specs.adb_schema.Views.{package_value, scripts_value};
ghost use Rattle.adb_view.specs.FieldIndexes.{PACKAGE_SCRIPTS_INDEX};
ghost use Rattle.adb_view.specs.Values.{entry_at_index};
ghost use Rattle.adb_view.specs.Plain.{Plain};
ghost use Rattle.change_outcome.specs.Told.{IsRefusalReported};
ghost use Rattle.change_inputs.specs.Answers.{Agrees};
ghost use Rattle.change_outcome.specs.PackageFiles.{first_script_number_of_package, scripts_of_change, unless_script_needed};
ghost use Rattle.package_changes.specs.Seen.{change_seen};
ghost use Rattle.report_core.specs.declared.refusal.Refusal.TheVariants.{ScriptNeeded};
ghost use Rattle.std.specs.Prelude.{◌≡◌, ◌<◌, ◌+◌, ◌^◌, ◌==◌, ℕ, true, not, if◌then◌else◌, Some, None, length, IfOk};

use crate::package::told;
use base_core::Text;
use change_inputs::Refused;
use package_changes::Change;
use package_verifier::{PackageView, ScriptsView};
use report_core::Refusal;
use report_core::numbers::{PRE_DEINSTALL_SCRIPT, PRE_INSTALL_SCRIPT, PRE_UPGRADE_SCRIPT};
use std::alloc::{AllocError, Global};
use std::marker::PhantomData;

/// Refuses the package `pkg`, of this name, if it has a script which its change would run, unless
/// scripts are left out. `_mark` serves only the borrow checker: it does not know the parts of a
/// view that is made and lent here unless the signature names the view.
///
/// # Errors
///
/// `ScriptNeeded` with the number of the first such script, or `Memory`.
pub(crate) fn test_scripts<'a>(
    alloc: Global,
    no_scripts: bool,
    name: &[u8],
    change: &Change<'_>,
    pkg: &PackageView<'a>,
    _mark: PhantomData<PackageView<'a>>,
) -> Result<(), Refused>
    // Refused exactly if a script of the package would have to run and is not skipped.
    ensures { Agrees (λ _. true) result (unless_script_needed no_scripts name.now
        (package_value pkg.now)
        (scripts_of_change (change_seen change.now)) true) }
{
    if no_scripts {
        return Ok(());
    }
    match first_script(change, &pkg.scripts()) {
        None => Ok(()),
        Some(number) => Err(told(script_needed(alloc, name, number))),
    }
}

/// The refusal of a package that has a script which would have to run; the refusal has the script's
/// number.
fn script_needed(alloc: Global, name: &[u8], number: u16) -> Result<Refusal, AllocError>
    ensures { IfOk result (λ refusal. refusal ≡ ScriptNeeded name.now number) }
{
    Ok(Refusal::ScriptNeeded {
        name: Text::of(alloc, name)?,
        script: number,
    })
}

/// The number of the first of these scripts of a package that the change would run, if there is
/// one.
fn first_script(change: &Change<'_>, scripts: &ScriptsView<'_>) -> Option<u16>
    // The result is the number of the first script of the package that the change would run.
    ensures { (pkg : Plain) → scripts_value scripts.now ≡ entry_at_index pkg PACKAGE_SCRIPTS_INDEX
        → result ≡ first_script_number_of_package pkg (scripts_of_change (change_seen change.now)) }
{
    match change {
        Change::Install(_, _) => {
            first_of_two(
                PRE_INSTALL_SCRIPT,
                scripts.pre_install(),
                scripts.post_install(),
            )
        }
        Change::Purge(_, _) => {
            first_of_two(
                PRE_DEINSTALL_SCRIPT,
                scripts.pre_deinstall(),
                scripts.post_deinstall(),
            )
        }
        Change::Reinstall(_, _)
        | Change::Upgrade(_, _, _)
        | Change::Downgrade(_, _, _)
        | Change::Replace(_, _, _) => {
            first_of_two(
                PRE_UPGRADE_SCRIPT,
                scripts.pre_upgrade(),
                scripts.post_upgrade(),
            )
        }
    }
}

/// The number of the first of two scripts that has bytes, or None if both are empty. `number` is
/// the number of the script `first`; the script `second` has the next number.
fn first_of_two(number: u16, first: &[u8], second: &[u8]) -> Option<u16>
    // The number after it fits into 16 bits too.
    requires { number + 1 < 2 ^ 16 }
    // The number of the first of the two with bytes, or None.
    ensures { result ≡ (if not (length first.now == 0) then Some number
        else if not (length second.now == 0) then Some (number + 1) else None) }
{
    if !first.is_empty() {
        return Some(number);
    }
    if !second.is_empty() {
        return Some(number + 1);
    }
    None
}
