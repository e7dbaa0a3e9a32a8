//! The calls of a tree in memory: which are to fail, and how many there were.
//! The rules are in `docs/crash-safety.md`, "Misuses, faults and counts".

ghost use Rattle.std.specs.Prelude.{◌≡◌, [], None, Some, OnOk, OnErr, is_ok, if◌then◌else◌, ◌⊎◌, ◌+◌, ℕ, false};
ghost use Rattle.base_core.specs.Faults.{saturating_increment, CountsNewFaultWithCause, RoseOrIsSaturated};
ghost use Rattle.tree_memory.specs.Plans.{FailurePlanFromNextCall, no_plan, is_next_call_to_fail, is_next_call_listed, plan_after_one_call, listed_calls_after_one_call, has_next_or_later_failure, is_call_to_fail, plan_after_calls};
ghost use Rattle.tree_memory.specs.Tallies.{no_calls, with_call, with_fault, with_misuse, with_memory_fault, with_begun_call, goes_on, HasNotFallen};
ghost use Rattle.tree_memory.specs.Memory.{failure_plan_of, counts_of};
ghost use Rattle.tree_memory.specs.Sink.{SinkState, sink_counts};
ghost use Rattle.tree_memory.specs.declared.tree.MemoryTree.{MemoryTree};

use base_core::Disk;
use std::alloc::{AllocError, Global};
use std::marker::Model;

/// A plan of failures: which calls are to fail, counted from 1 from now on.
#[derive(Drop)]
pub struct Plan {
    // The calls with these numbers are to fail.
    listed: Vec<u64>,
    // All calls after the next so many are to fail, if a stop is planned.
    stop: Option<u64>,
}

impl Model for Plan {
    ghost use Rattle.tree_memory.specs.Plans.{FailurePlanFromNextCall};

    ghost Value = { FailurePlanFromNextCall };

    ghost view = { λ plan. record { listed = plan.listed.items; stop = plan.stop } };
}

impl Plan {
    /// The plan by which no call is to fail.
    pub fn none(alloc: Global) -> Plan
        ensures { result ≡ no_plan }
    {
        Plan {
            listed: Vec::new(alloc),
            stop: None,
        }
    }

    /// The plan by which the calls with these numbers are to fail; the next call is number 1.
    pub fn at(alloc: Global, calls: &[u64]) -> Result<Plan, AllocError>
        // On success the plan has these numbers, and no stop.
        ensures { OnOk result (result ≡ Ok (record { listed = calls.now; stop = None })) }
    {
        let listed = Vec::from_slice(alloc, calls)?;
        Ok(Plan { listed, stop: None })
    }

    /// The plan by which all calls after the next n calls are to fail.
    pub fn after(alloc: Global, n: u64) -> Plan
        ensures { result ≡ record { listed = []; stop = Some n } }
    {
        Plan {
            listed: Vec::new(alloc),
            stop: Some(n),
        }
    }

    /// Takes the next call: returns whether the plan makes it fail. Afterwards the numbers of the
    /// plan are counted from the call after it.
    pub fn pass(&mut self) -> bool
        // True exactly if the next call is to fail.
        ensures planned { result ≡ is_next_call_to_fail self.old }
        // The plan is then counted from the call after this one.
        ensures nearer { self.new ≡ plan_after_one_call self.old }
    {
        // Whether the list makes this call fail; the list is then counted from the next call.
        let listed = pass(&mut self.listed);
        // A planned stop is one call nearer; without calls before it, this call fails too.
        match self.stop {
            None => listed,
            Some(n) => {
                self.stop = Some(n.saturating_sub(1));
                listed || n == 0
            }
        }
    }
}

// Takes the next call: returns whether it is in the list of calls that fail. Afterwards the list is
// counted from the call after it: each number is one less, and 0 is dropped.
fn pass(plan: &mut Vec<u64>) -> bool
    // True exactly if the next call is on the list.
    ensures planned { result ≡ is_next_call_listed plan.old.items }
    // The list is then counted from the call after this one.
    ensures nearer { plan.new.items ≡ listed_calls_after_one_call plan.old.items }
{
    let planned = plan.contains(&1);
    for n in plan.iter_mut() {
        *n = n.saturating_sub(1);
    }
    plan.retain(|n| *n > 0);
    planned
}

/// How many calls were made, and how many of them failed. Each count stays at its last value,
/// 2^64 - 1.
#[derive(Clone, Copy)]
pub struct Tally {
    /// How many calls were made, of any kind.
    pub calls: u64,
    /// How many of the calls write.
    pub writes: u64,
    /// How many of the calls failed.
    pub faults: u64,
    /// How many of the failed calls were misuses.
    pub misuses: u64,
    /// How many of the calls failed because the tree itself was out of memory.
    pub memory_faults: u64,
}

impl Tally {
    /// The counts before the first call.
    pub fn new() -> Tally
        ensures { result ≡ no_calls }
    {
        Tally {
            calls: 0,
            writes: 0,
            faults: 0,
            misuses: 0,
            memory_faults: 0,
        }
    }

    /// Counts one more call.
    pub fn call(&mut self)
        ensures { self.new ≡ with_call self.old }
    {
        self.calls = self.calls.saturating_add(1);
    }

    /// Counts the call as one that writes.
    pub fn write(&mut self)
        ensures { self.new ≡ record self.old { writes = saturating_increment self.old.writes } }
    {
        self.writes = self.writes.saturating_add(1);
    }

    /// Counts the call as one that failed.
    pub fn fault(&mut self)
        // One more fault is counted, up to 2^64 - 1.
        ensures is { self.new ≡ with_fault self.old }
        // No count of failures falls.
        ensures grown { HasNotFallen self.old self.new }
    {
        self.faults = self.faults.saturating_add(1);
    }

    /// Counts the call as a misuse, which is a fault too.
    pub fn misuse(&mut self)
        // One more fault and one more misuse are counted, each up to 2^64 - 1.
        ensures is { self.new ≡ with_misuse self.old }
        // No count of failures falls.
        ensures grown { HasNotFallen self.old self.new }
    {
        self.fault();
        self.misuses = self.misuses.saturating_add(1);
    }

    /// Counts the call as one that ran out of memory, which is a fault too.
    pub fn want(&mut self)
        // One more fault and one more lack of memory are counted, each up to 2^64 - 1.
        ensures is { self.new ≡ with_memory_fault self.old }
        // No count of failures falls.
        ensures grown { HasNotFallen self.old self.new }
    {
        self.fault();
        self.memory_faults = self.memory_faults.saturating_add(1);
    }
}

/// The calls of a tree: which are to fail, and how many there were.
#[derive(Drop)]
pub struct Calls {
    /// Which calls are to fail, counted from 1 from now on.
    pub plan: Plan,
    /// How many calls were made, and how many of them failed.
    pub tally: Tally,
}

impl Calls {
    /// No calls yet, none of which is to fail.
    pub fn new(alloc: Global) -> Calls
        // No call is to fail.
        ensures plan { result.plan ≡ no_plan }
        // No call was made.
        ensures tally { result.tally ≡ no_calls }
    {
        Calls {
            plan: Plan::none(alloc),
            tally: Tally::new(),
        }
    }

    /// Counts a call of the tree, at its start. The call fails if it is a misuse (`can` is false),
    /// or if its failure is planned.
    pub fn begin(&mut self, can: bool) -> Result<(), Disk>
        // The plan of failures is then counted from the call after this one.
        ensures plan { self.new.plan ≡ plan_after_one_call self.old.plan }
        // The call is counted, with its failure if it has one.
        ensures tally { self.new.tally ≡ with_begun_call can
            (is_next_call_to_fail self.old.plan) self.old.tally }
        // No count of failures falls.
        ensures grown { HasNotFallen self.old.tally self.new.tally }
        // The result is Ok exactly if the call is no misuse and no failure is planned for it.
        ensures when { is_ok result ≡ goes_on can (is_next_call_to_fail self.old.plan) }
    {
        self.tally.call();
        // Whether the plan makes this call fail; the plan then counts from the next call.
        let planned = self.plan.pass();
        if !can {
            self.tally.misuse();
            return Err(Disk);
        }
        if planned {
            self.tally.fault();
            return Err(Disk);
        }
        Ok(())
    }

    /// Counts a call of the tree that writes, at its start. The call fails if it is a misuse (`can`
    /// is false), or if its failure is planned.
    pub fn begin_write(&mut self, can: bool) -> Result<(), Disk>
        // The plan of failures is then counted from the call after this one.
        ensures plan { self.new.plan ≡ plan_after_one_call self.old.plan }
        // The call is counted, with its failure if it has one.
        ensures tally { self.new.tally ≡ with_begun_call can (is_next_call_to_fail self.old.plan)
            (record self.old.tally { writes = saturating_increment self.old.tally.writes }) }
        // No count of failures falls.
        ensures grown { HasNotFallen self.old.tally self.new.tally }
        // The result is Ok exactly if the call is no misuse and no failure is planned for it.
        ensures when { is_ok result ≡ goes_on can (is_next_call_to_fail self.old.plan) }
    {
        self.tally.write();
        self.begin(can)
    }

    /// Ends a call that did not fail at its start. `done` is the result of its change of the store:
    /// if that ran out of memory, the call fails, and this is counted.
    pub fn finish(&mut self, done: Result<(), AllocError>) -> Result<(), Disk>
        // The plan of failures is unchanged.
        ensures plan { self.new.plan ≡ self.old.plan }
        // If out of memory, one more fault and one more lack of memory is counted.
        ensures tally { self.new.tally
            ≡ (if is_ok done then self.old.tally else with_memory_fault self.old.tally) }
        // No count of failures falls.
        ensures grown { HasNotFallen self.old.tally self.new.tally }
        // The call succeeds exactly if the change of the store succeeded.
        ensures when { is_ok result ≡ is_ok done }
    {
        match done {
            Ok(()) => Ok(()),
            Err(_) => {
                self.tally.want();
                Err(Disk)
            }
        }
    }
}

/// A law: if no failure of a tree in memory is planned and a fault was counted, a misuse or a lack
/// of memory was counted too, or one of these two counts was at its greatest value.
pub fn an_unplanned_fault_has_its_reason()
    ensures { (before now : MemoryTree) → has_next_or_later_failure (failure_plan_of before) ≡ false
        → CountsNewFaultWithCause (counts_of before) (counts_of now)
        → RoseOrIsSaturated (counts_of before).misuses (counts_of now).misuses
        ⊎ RoseOrIsSaturated (counts_of before).memory_faults (counts_of now).memory_faults }
{}

/// A law: if no end of a sink in memory is planned, each of its faults is a lack of memory, and is
/// counted as one unless this count was at its greatest value.
pub fn an_endless_sink_runs_out_of_memory()
    ensures { (before now : SinkState) → before.room ≡ None
        → CountsNewFaultWithCause (sink_counts before) (sink_counts now)
        → RoseOrIsSaturated before.memory_faults now.memory_faults }
{}

/// A law: after k calls, the next call is to fail exactly if the plan makes call k + 1 fail: it is
/// listed, or it is after the stop.
pub fn a_call_fails_where_it_is_planned()
    ensures { (plan : FailurePlanFromNextCall) (k : ℕ)
        → is_next_call_to_fail (plan_after_calls k plan)
        ≡ is_call_to_fail plan (k + 1) }
{}
