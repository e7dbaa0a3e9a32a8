//! Laws: which triggers are due, and what is reported of them. The rules are in `docs/commands.md`,
//! "`add` and `del`", part "Which triggers are due".

ghost use Rattle.std.specs.Prelude.{◌≡◌, ◌⊎◌, ◌↔◌, ℕ, List, [], true, false, Ok, Err, codes};
ghost use Rattle.adb_view.specs.Plain.{Plain};
ghost use Rattle.definition_laws.specs.answers.DueTriggers.{HasFileDirectlyInFolder, HasDueTriggerLines, IsTriggerDueFor, MatchesFolderByParts, IsFirstPackageWithDueTrigger, HasTriggerScriptAndWatchesFolder};
ghost use Rattle.base_core.specs.Files.{Files};
ghost use Rattle.base_core.specs.Listed.{AreSortedDistinctTexts};
ghost use Rattle.base_core.specs.Lists.{IsIn};
ghost use Rattle.change_outcome.specs.own_core.FileChange.{FileChange};
ghost use Rattle.change_outcome.specs.own_core.FilesAfter.{is_removed, is_listing_written_under_name};
ghost use Rattle.change_outcome.specs.ChangeOutcome.{touched_paths};
ghost use Rattle.change_outcome.specs.Triggers.{folders_of_paths, is_trigger_due, is_folder_matched_by_pattern, trigger_lines, unless_trigger_due};
ghost use Rattle.change_outcome.specs.db_core.Members.{Member};
ghost use Rattle.report_core.specs.declared.refusal.Refusal.TheVariants.{TriggerNeeded};

use change_outcome::{
    a_pattern_matches_what_its_stars_are_filled_to, the_lists_of_a_plan_hold_just_its_names,
};

/// A pattern matches a folder exactly if both have the same number of parts, and bytes can replace
/// the stars of each part of the pattern so that it reads as the folder's part. The root is matched
/// by `/` alone.
pub fn a_pattern_matches_a_folder_part_by_part()
    // A folder below the root is matched part by part.
    ensures below { (folder pattern : List ℕ) → (folder ≡ [] → ⊥)
        → (is_folder_matched_by_pattern folder pattern ≡ true)
        ↔ MatchesFolderByParts pattern folder }
    // The root, the empty path, is matched by the pattern `/` alone.
    ensures root { (pattern : List ℕ)
        → (is_folder_matched_by_pattern [] pattern ≡ true) ↔ (pattern ≡ codes "/") }
{
    // A law that the proof needs; it has no effect at run time.
    a_pattern_matches_what_its_stars_are_filled_to();
}

/// A trigger is due for a folder exactly if the package has a trigger script and one of its
/// patterns matches the folder. The folders that are tested are exactly those that directly contain
/// a changed file, each once, in byte order.
pub fn a_trigger_is_due_for_a_changed_folder()
    // The trigger of a package is due for a folder exactly if it watches this folder.
    ensures due { (pkg : Plain) (folder : List ℕ)
        → (is_trigger_due pkg folder ≡ true) ↔ HasTriggerScriptAndWatchesFolder pkg folder }
    // The folders of changed files (`paths`) are those that directly contain one of them.
    ensures folders { (paths : List (List ℕ)) (folder : List ℕ)
        → IsIn folder (folders_of_paths paths) ↔ HasFileDirectlyInFolder paths folder }
    // These folders are in byte order, each once.
    ensures order { (paths : List (List ℕ)) → AreSortedDistinctTexts (folders_of_paths paths) }
{}

/// A report has a line for each package and each folder for which its trigger is due, and no other:
/// the packages in their order, and of each the folders in byte order, each once.
pub fn each_due_trigger_has_a_line()
    ensures { (paths : List (List ℕ)) (members : List Member)
        → HasDueTriggerLines paths members (trigger_lines paths members) }
{}

/// Without `--no-scripts` (the argument `false`), a change is not refused for triggers exactly if
/// no trigger is due. The refusal names the first package whose trigger is due.
pub fn a_due_trigger_refuses_the_change()
    // The change is not refused exactly if no trigger is due.
    ensures accepted { (paths : List (List ℕ)) (members : List Member)
        → (unless_trigger_due false paths members ≡ Ok true)
        ↔ ((m : Member) → IsIn m members → (folder : List ℕ) → IsTriggerDueFor paths m folder → ⊥) }
    // The refusal names the first package whose trigger is due.
    ensures named { (paths : List (List ℕ)) (members : List Member) (name : List ℕ)
        → unless_trigger_due false paths members ≡ Err (TriggerNeeded name)
        → IsFirstPackageWithDueTrigger paths members name }
{}

/// The paths whose folders are tested for triggers are exactly those at which the change writes or
/// removes a package's file.
pub fn the_changed_files_are_those_written_or_removed()
    ensures { (change : FileChange) (files : Files) (path : List ℕ)
        → IsIn path (touched_paths change files)
        ↔ ((is_listing_written_under_name change files path ≡ true)
        ⊎ (is_removed change files path ≡ true)) }
{
    // A law that the proof needs; it has no effect at run time.
    the_lists_of_a_plan_hold_just_its_names();
}
