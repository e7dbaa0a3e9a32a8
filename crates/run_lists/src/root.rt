//! A run of `apk` on a root that has seen any list of events. The contract follows from that of
//! `apk`, as the README of this crate says in "The sentence".
ghost use Rattle.base_core.specs.Calls.{IfObservable};
ghost use Rattle.base_core.specs.Sink.{sink_before_and_after};
ghost use Rattle.run_lists.specs.Events.{IsRunFrom, Run};
ghost use Rattle.run_lists.specs.Safety.{IsAtomicFromOneCrashState, IsCrashSafeAfterAnyEvents};

use crate::laws::a_run_is_safe_after_any_events;
use apk_front::{Answer, apk};
use base_core::{Sink, Tree, Words};
use std::alloc::Global;

/// Runs a command line on a root, by `apk`. The contract says what this run leaves of a root whose
/// tree is observable, after any list of events that the root has seen.
pub fn run_on_a_root<T: Tree, O: Sink, E: Sink>(
    alloc: Global,
    words: &Words,
    tree: &mut T,
    out: &mut O,
    err: &mut E,
) -> Answer
    // The call of `apk` is a run from the state v. So after any list of events the run is safe, and
    // all or nothing if each crash left one state before it.
    ensures { IfObservable (T.history tree.old) (λ v. let run : Run = record {
      words = words.now;
      old = T.history tree.old;
      now = T.history tree.new;
      before = T.counts tree.old;
      after = T.counts tree.new;
      out = sink_before_and_after O.bytes O.counts out.old out.new;
      err = sink_before_and_after E.bytes E.counts err.old err.new;
      answer = result;
    } in IsRunFrom v run × IsCrashSafeAfterAnyEvents v run × IsAtomicFromOneCrashState v run) }
{
    // A law that the proof needs; it has no effect at run time.
    a_run_is_safe_after_any_events();
    apk(alloc, words, tree, out, err)
}
