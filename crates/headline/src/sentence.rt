//! A law: the theorem of the README holds for every run, after every list of events that a root has
//! seen before it. The rules that the theorem states are in `docs/crash-safety.md`, "Recovery", and
//! in `docs/commands.md`, "`add` and `del`".
ghost use Rattle.base_core.specs.Tree.{TreeState};
ghost use Rattle.headline.specs.Sentence.{IsAsPromisedAfterAnyEvents};
ghost use Rattle.run_lists.specs.Events.{IsRunFrom, Run};

use refusal_laws::{
    a_change_takes_the_first_selection_or_is_refused, a_command_recovers,
    a_refused_run_has_its_fault, an_outcome_is_unique,
    the_packages_after_a_run_are_those_of_the_first_selection,
};
use run_lists::{
    a_run_is_safe_after_any_events, a_stopped_run_is_recovered, more_names_may_be_ignored,
};

/// The theorem holds for every run, whatever runs, stops, crashes and changes by others a root has
/// seen before it. Recovery after the run yields a state from before the run, or that of its
/// outcome; the latter once an outcome that commits is answered. If a change is refused, the reason
/// that it states is true. Otherwise it takes the first preferred selection.
pub fn the_sentence_holds()
    ensures { (v : TreeState) (run : Run) → IsRunFrom v run → IsAsPromisedAfterAnyEvents v run }
{
    // Laws that the proof needs; they have no effect at run time.
    a_run_is_safe_after_any_events();
    a_stopped_run_is_recovered();
    more_names_may_be_ignored();
    an_outcome_is_unique();
    a_command_recovers();
    a_change_takes_the_first_selection_or_is_refused();
    a_refused_run_has_its_fault();
    the_packages_after_a_run_are_those_of_the_first_selection();
}
