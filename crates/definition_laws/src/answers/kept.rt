//! Laws: which packages are kept though they were to be removed, and which others need them. The
//! rules are in `docs/commands.md`, "`add` and `del`", part "What is reported".

ghost use Rattle.std.specs.Prelude.{◌↔◌, ℕ, List};
ghost use Rattle.adb_view.specs.Plain.{Plain};
ghost use Rattle.definition_laws.specs.answers.KeptNames.{IsEachNameSelectedAtMostOnce, HasStillNeededLines, IsNeededBySelectedName};
ghost use Rattle.base_core.specs.Listed.{AreSortedDistinctTexts};
ghost use Rattle.base_core.specs.Lists.{IsIn};
ghost use Rattle.tell_core.specs.candidate_core.Candidates.{Candidate};
ghost use Rattle.change_outcome.specs.package_changes.Report.{names_needing_candidate, lines_on_names_that_stay};

/// The names after "required by" are exactly those of the other selected packages that need the
/// kept one, by its name or by what it provides, each once, in byte order.
pub fn a_kept_package_is_required_by_those_that_need_it()
    // The list has exactly the names of the other selected packages that need this one.
    ensures each { (selected : List Candidate) (needed : Candidate) (name : List ℕ)
        → IsIn name (names_needing_candidate selected needed)
        ↔ IsNeededBySelectedName selected needed name }
    // The names in the list are in byte order, each once.
    ensures order { (selected : List Candidate) (needed : Candidate)
        → AreSortedDistinctTexts (names_needing_candidate selected needed) }
{}

/// A name has a line `NAME stays` exactly if it was to be removed, was installed
/// and is still selected. Each such name has one line. The lines are in byte order of the names.
pub fn a_name_stays_if_it_is_still_selected()
    ensures { (before : List Plain) (selected : List Candidate) (to_remove : List (List ℕ))
        → IsEachNameSelectedAtMostOnce selected
        → HasStillNeededLines before selected to_remove
        (lines_on_names_that_stay before selected to_remove) }
{}
