//! Functions that do the actions of an intent, one after another: first its removals, then its
//! moves. `Stage::apply_one` calls `act`.
//! The rules are in `docs/crash-safety.md`, "A change of several files": the lines of `apply_one`
//! in the example, and the text on actions.
ghost use Rattle.std.specs.Prelude.{◌≡◌, ◌≤◌, ◌<◌, ◌+◌, length, IfOk, OnOk, IsSome};
ghost use Rattle.base_core.specs.Calls.{HoldsNow, IfObservable};
ghost use Rattle.base_core.specs.Crash.{Since};
ghost use Rattle.base_core.specs.Files.{Files};
ghost use Rattle.base_core.specs.Tree.{CanRename};
ghost use Rattle.journal_core.specs.Acting.{CarriesOutActions, MovesIfPresent, stage_with_actions_done};
ghost use Rattle.journal_core.specs.CallCounts.{IsResultExplainedByCounts};
ghost use Rattle.journal_core.specs.Kept.{IsNameOfNextAction, KeepsFilesExcept, KeepsIntentWhileStageShrinks};
ghost use Rattle.journal_core.specs.Staged.{AreIntentAndStagedPathsFree, IsCarryingOutActions, action_count};

use crate::calls::{remove, rename};
use base_core::{Disk, Name, Tree};
use journal_intent::PreparedIntent;

/// Does the next action of the intent, of which the first `acted` are done. Returns how many are
/// done then, which is `acted` if none was left. The clauses are those of `Stage::apply_one`.
pub(crate) fn act<T: Tree>(
    intent: &PreparedIntent,
    acted: usize,
    tree: &mut T,
) -> Result<usize, Disk>
    // If the actions that count as done are done in the tree, the state is unchanged at each
    // moment, and recovery yields the same files.
    ensures actions { CarriesOutActions (stage_with_actions_done intent.now acted)
        (T.history tree.old) (T.history tree.new) }
    // Once Ok is returned, the actions that then count as done are done in the tree, and
    // recovery yields the same files as at the call.
    ensures acting { IfObservable (T.history tree.old) (λ v. (files : Files)
        → IsCarryingOutActions (stage_with_actions_done intent.now acted) files v
        → IfOk result (λ next. HoldsNow (T.history tree.new)
        (IsCarryingOutActions (stage_with_actions_done intent.now next) files))) }
    // At each moment the intent is unchanged, and each staged file is unchanged or gone.
    ensures waiting { IfObservable (T.history tree.old) (λ v.
        Since (KeepsIntentWhileStageShrinks v) (T.history tree.old) (T.history tree.new)) }
    // Whatever is returned, in the newest state only the names of this action have changed.
    ensures others { IfObservable (T.history tree.old) (λ v.
        HoldsNow (T.history tree.new) (KeepsFilesExcept (IsNameOfNextAction intent.now acted) v)) }
    // If an action was left, the returned count is one more than `acted`.
    ensures more { acted < action_count intent.now → IfOk result (λ next. next ≡ acted + 1) }
    // If no action was left, `acted` is returned, and no call on the tree is made.
    ensures none_left { action_count intent.now ≤ acted
        → IfOk result (λ next. next ≡ acted) × (tree.new ≡ tree.old) }
    // How the tree's counts explain the result.
    ensures counts { IsResultExplainedByCounts (T.counts tree.old) (T.counts tree.new) result }

    // No call is a misuse, if the paths of the intent and of the staged files are free among
    // `files`, which recovery yields.
    ensures proper { IfObservable (T.history tree.old) (λ v. (files : Files)
        → IsCarryingOutActions (stage_with_actions_done intent.now acted) files v
        → AreIntentAndStagedPathsFree files
        → (T.counts tree.new).misuses ≡ (T.counts tree.old).misuses) }
{
    // A law that the proof needs; it computes nothing.
    intent.names_are_free();
    let removals = intent.removals_len();
    if acted < removals {
        remove_one(intent, acted, tree)?;
        return Ok(acted + 1);
    }
    if acted - removals < intent.writes_len() {
        move_one(intent, acted - removals, acted, tree)?;
        return Ok(acted + 1);
    }
    Ok(acted)
}

/// Does the removal with the index `i`, given that the removals before it are done. The clauses are
/// those of `act`, for a removal.
fn remove_one<T: Tree>(intent: &PreparedIntent, i: usize, tree: &mut T) -> Result<(), Disk>
    // The index is that of one of the removals.
    requires { i < length intent.now.removals }
    // If the actions that count as done are done in the tree, the state is unchanged at each
    // moment, and recovery yields the same files.
    ensures actions { CarriesOutActions (stage_with_actions_done intent.now i)
        (T.history tree.old) (T.history tree.new) }
    // Once Ok is returned, the actions that then count as done are done in the tree, and
    // recovery yields the same files as at the call.
    ensures acting { IfObservable (T.history tree.old) (λ v. (files : Files)
        → IsCarryingOutActions (stage_with_actions_done intent.now i) files v
        → OnOk result (HoldsNow (T.history tree.new)
        (IsCarryingOutActions (stage_with_actions_done intent.now (i + 1)) files))) }
    // At each moment the intent is unchanged, and each staged file is unchanged or gone.
    ensures waiting { IfObservable (T.history tree.old) (λ v.
        Since (KeepsIntentWhileStageShrinks v) (T.history tree.old) (T.history tree.new)) }
    // Whatever is returned, in the newest state only the names of this action have changed.
    ensures others { IfObservable (T.history tree.old) (λ v.
        HoldsNow (T.history tree.new) (KeepsFilesExcept (IsNameOfNextAction intent.now i) v)) }
    // How the tree's counts explain the result.
    ensures counts { IsResultExplainedByCounts (T.counts tree.old) (T.counts tree.new) result }

    // No call is a misuse.
    ensures proper { IfObservable (T.history tree.old)
        (λ v. (T.counts tree.new).misuses ≡ (T.counts tree.old).misuses) }
{
    // A law that the proof needs; it computes nothing.
    intent.names_are_free();
    remove(tree, intent.removal(i))
}

/// Moves the staged file of the write with the index `j` to its name. All removals, and the moves
/// before it, are done, `acted` in all. The clauses are those of `act`, for a move.
fn move_one<T: Tree>(
    intent: &PreparedIntent,
    j: usize,
    acted: usize,
    tree: &mut T,
) -> Result<(), Disk>
    // The index is that of one of the writes.
    requires within { j < length intent.now.writes }
    // `acted` counts all removals and the first `j` writes.
    requires behind { acted ≡ length intent.now.removals + j }
    // If the actions that count as done are done in the tree, the state is unchanged at each
    // moment, and recovery yields the same files.
    ensures actions { CarriesOutActions (stage_with_actions_done intent.now acted)
        (T.history tree.old) (T.history tree.new) }
    // Once Ok is returned, the actions that then count as done are done in the tree, and
    // recovery yields the same files as at the call.
    ensures acting { IfObservable (T.history tree.old) (λ v. (files : Files)
        → IsCarryingOutActions (stage_with_actions_done intent.now acted) files v
        → OnOk result (HoldsNow (T.history tree.new)
        (IsCarryingOutActions (stage_with_actions_done intent.now (acted + 1)) files))) }
    // At each moment the intent is unchanged, and each staged file is unchanged or gone.
    ensures waiting { IfObservable (T.history tree.old) (λ v.
        Since (KeepsIntentWhileStageShrinks v) (T.history tree.old) (T.history tree.new)) }
    // Whatever is returned, in the newest state only the names of this action have changed.
    ensures others { IfObservable (T.history tree.old) (λ v.
        HoldsNow (T.history tree.new) (KeepsFilesExcept (IsNameOfNextAction intent.now acted) v)) }
    // How the tree's counts explain the result.
    ensures counts { IsResultExplainedByCounts (T.counts tree.old) (T.counts tree.new) result }

    // No call is a misuse, if the paths of the intent and of the staged files are free among
    // `files`, which recovery yields.
    ensures proper { IfObservable (T.history tree.old) (λ v. (files : Files)
        → IsCarryingOutActions (stage_with_actions_done intent.now acted) files v
        → AreIntentAndStagedPathsFree files
        → (T.counts tree.new).misuses ≡ (T.counts tree.old).misuses) }
{
    // A law that the proof needs; it computes nothing. The staged files are numbered from 1.
    intent.names_are_free();
    move_waiting(tree, intent.stage_name(j + 1), intent.write(j))
}

/// Moves the staged file under the name `place` to `name`. If there is no such file, it was moved
/// before, and nothing is done.
fn move_waiting<T: Tree>(tree: &mut T, place: &Name, name: &Name) -> Result<(), Disk>
    // How the tree changes: the file is moved, or nothing happens.
    ensures moves { MovesIfPresent place.now name.now (T.history tree.old) (T.history tree.new)
        result }
    // How the tree's counts explain the result.
    ensures counts { IsResultExplainedByCounts (T.counts tree.old) (T.counts tree.new) result }

    // No call is a misuse, if the tree's state allows the move of a file that is there.
    ensures proper { IfObservable (T.history tree.old) (λ v.
        (IsSome (v.names place.now) → CanRename place.now name.now v)
        → (T.counts tree.new).misuses ≡ (T.counts tree.old).misuses) }
{
    match tree.size(place)? {
        Some(_) => rename(tree, place, name),
        None => Ok(()),
    }
}
