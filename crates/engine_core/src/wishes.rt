//! What a command asks of a change besides its new world: names to be removed, upgraded or
//! reinstalled; and which operand is unknown. The rules are in `docs/commands.md`, "`add` and
//! `del`" and "`upgrade` and `fix`".
ghost use Rattle.change_report.specs.change_inputs.Seen.{inputs_seen};
ghost use Rattle.change_report.specs.db_core.Seen.{packages_of};
ghost use Rattle.dep_core.specs.World.{has_dependency_named};
ghost use Rattle.change_report.specs.change_inputs.World.{operand_texts};
ghost use Rattle.engine_core.specs.Wishes.{place_of_first_unknown_operand, is_name_in_world_or_installed, names_of_upgrade, names_to_remove, names_to_reinstall, names_to_upgrade, unknown_operand_place};
ghost use Rattle.change_report.specs.package_changes.Report.{was_installed};
ghost use Rattle.change_report.specs.candidate_core.Rank.{all_names, listed_names};
ghost use Rattle.change_report.specs.candidate_core.Values.{names_upgraded_by};
ghost use Rattle.std.specs.Prelude.{◌≡◌, ◌||◌, [], IfOk, OnOk};

use base_core::Words;
use change_report::{Db, Loaded, Upgrade, operand_texts};
use command_core::{Applet, Command, Operands};
use dep_core::World;
use std::alloc::{AllocError, Global};
use std::cmp::Ordering;

/// The names that `del` takes out of world, whether their packages are then removed or kept.
///
/// # Errors
///
/// Out of memory, also if there are more than a list of words holds.
pub(crate) fn names_to_remove(alloc: Global, command: &Command) -> Result<Words, AllocError>
    ensures { IfOk result
        (λ names. names ≡ names_to_remove command.now.applet command.now.operands) }
{
    match command.applet() {
        Applet::Del => operand_texts(alloc, command.operands()),
        _ => Ok(Words::new(alloc)),
    }
}

/// The names that `fix` reinstalls: those of its operands.
///
/// # Errors
///
/// Out of memory, also if there are more than a list of words holds.
pub(crate) fn names_to_reinstall(alloc: Global, command: &Command) -> Result<Words, AllocError>
    ensures { IfOk result
        (λ names. names ≡ names_to_reinstall command.now.applet command.now.operands) }
{
    match command.applet() {
        Applet::Fix => operand_texts(alloc, command.operands()),
        _ => Ok(Words::new(alloc)),
    }
}

/// The texts of the operands of `upgrade`, and none for another command.
///
/// # Errors
///
/// Out of memory, also if there are more than a list of words holds.
pub(crate) fn names_of_upgrade(alloc: Global, command: &Command) -> Result<Words, AllocError>
    ensures { IfOk result
        (λ names. names ≡ names_of_upgrade command.now.applet command.now.operands) }
{
    match command.applet() {
        Applet::Upgrade => operand_texts(alloc, command.operands()),
        _ => Ok(Words::new(alloc)),
    }
}

/// The names that the command upgrades, given the texts `names` of the operands of `upgrade`: none
/// if the command is not `upgrade`.
pub(crate) fn names_to_upgrade<'a>(command: &Command, names: &'a Words) -> Upgrade<'a>
    // `names` are the operands of `upgrade`.
    requires { names.now ≡ names_of_upgrade command.now.applet command.now.operands }
    ensures { names_upgraded_by result
        ≡ names_to_upgrade command.now.applet command.now.operands }
{
    match command.applet() {
        Applet::Upgrade => all_or_listed(names),
        _ => Upgrade::Nothing,
    }
}

// The names that `upgrade` upgrades: the listed ones, or all if none is listed.
fn all_or_listed(names: &Words) -> Upgrade<'_>
    // Without operands, all names are upgraded.
    ensures all { names.entry.now ≡ [] → names_upgraded_by result ≡ all_names }
    // With operands, just their texts are upgraded.
    ensures listed { (names.entry.now ≡ [] → ⊥)
        → names_upgraded_by result ≡ listed_names names.entry.now }
{
    if names.is_empty() {
        return Upgrade::All;
    }
    Upgrade::Listed(names)
}

/// The place on the command line of the operand that is refused as unknown: for `del` the first
/// name that is neither in world nor installed, for `upgrade` and `fix` the first that is not
/// installed.
pub(crate) fn unknown_operand(command: &Command, loaded: &Loaded, db: &Db<'_>) -> Option<u32>
    // The opened database has the packages that were read of the root.
    requires { packages_of db.now ≡ (inputs_seen loaded.now).root.database.packages }
    ensures { result
        ≡ unknown_operand_place command.now.applet (inputs_seen loaded.now) command.now.operands }
{
    match command.applet() {
        Applet::Del => place_of_first_unknown_operand(command.operands(), loaded, db),
        Applet::Upgrade | Applet::Fix => first_not_installed(command.operands(), db),
        _ => None,
    }
}

// The place on the command line of the first operand whose text is neither a name in world nor that
// of an installed package.
fn place_of_first_unknown_operand(operands: &Operands, loaded: &Loaded, db: &Db<'_>) -> Option<u32>
    // The opened database has the packages that were read of the root.
    requires { packages_of db.now ≡ (inputs_seen loaded.now).root.database.packages }
    ensures { result ≡ place_of_first_unknown_operand (is_name_in_world_or_installed
        (inputs_seen loaded.now)) operands.now }
{
    for i in 0..operands.len() {
        let operand = operands.get(i);
        if !is_known(operand.text.as_bytes(), loaded, db) {
            return Some(operand.place);
        }
    }
    None
}

// The place on the command line of the first operand whose text is no name of an installed package.
fn first_not_installed(operands: &Operands, db: &Db<'_>) -> Option<u32>
    ensures { result ≡ place_of_first_unknown_operand (was_installed
        (packages_of db.now)) operands.now }
{
    for i in 0..operands.len() {
        let operand = operands.get(i);
        if !is_installed(operand.text.as_bytes(), db) {
            return Some(operand.place);
        }
    }
    None
}

// Whether world has an entry of a name, or a package of this name is installed.
fn is_known(name: &[u8], loaded: &Loaded, db: &Db<'_>) -> bool
    // The opened database has the packages that were read of the root.
    requires { packages_of db.now ≡ (inputs_seen loaded.now).root.database.packages }
    ensures { result ≡ is_name_in_world_or_installed (inputs_seen loaded.now) name.now }
{
    if is_in_world(name, loaded.world()) {
        return true;
    }
    is_installed(name, db)
}

// Whether world has an entry of a name. World is sorted by name, so this is a binary search.
fn is_in_world(name: &[u8], world: &World) -> bool
    ensures { result ≡ has_dependency_named name.now world.now }
{
    let mut low = 0;
    let mut high = world.len();
    'halves: while low < high {
        let middle = low + (high - low) / 2;
        match world.entry(middle).name.cmp(name) {
            Ordering::Less => low = middle + 1,
            Ordering::Equal => return true,
            Ordering::Greater => high = middle,
        }
    }
    false
}

// Whether a package of a name is installed.
fn is_installed(name: &[u8], db: &Db<'_>) -> bool
    ensures { result ≡ was_installed (packages_of db.now) name.now }
{
    db.find(name).is_some()
}
