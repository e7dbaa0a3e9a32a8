//! Runs one row: its command lines, one after the other, each over a tree and two sinks in memory.
//! What a row expects of a run is in `tests/rows.md`, "Lines"; what it expects of further runs, in
//! which something fails, is in "What goes wrong".
use crate::sweep::sweep;
use row_check::{
    MemorySink, MemoryTree, Program, Report, Row, Run, SinkPlan, Step, Trial, check_images, tree_of,
};
use std::alloc::Global;

/// Runs the command lines of a row, each over the tree that the command line before it left, until
/// the row fails. Returns the tree that the last command line leaves. `left` has the trees that
/// earlier rows left.
pub(crate) fn run_row<P: Program>(
    program: &P,
    row: &Row,
    left: &[Option<MemoryTree>],
    report: &mut Report,
) -> MemoryTree {
    let mut tree = tree_of(program, row, left, report);
    for step in &row.steps {
        if !report.has_failed() {
            tree = run_step(program, step, &tree, report);
        }
    }
    tree
}

/// Runs a command line over the tree `before`, compares the results with those that the row
/// expects, and makes the further runs that the row plans. Returns the tree that the command line
/// leaves.
fn run_step<P: Program>(
    program: &P,
    step: &Step,
    before: &MemoryTree,
    report: &mut Report,
) -> MemoryTree {
    let trial = Trial {
        program,
        step,
        before,
    };
    let mut tree = report.image_of(before, 0);
    if tree.fail_at(&step.plan.calls).is_err() {
        report.run_out();
    }
    let run = run_once(report.alloc, &trial, tree, None, None);
    trial.check_run(&run, report);
    if step.plan.calls.is_empty() {
        // After a run without failed calls, a crash must leave all files as they are.
        check_images(step, &run.tree, report);
    }
    if !report.has_failed() {
        sweep(&trial, &run, report);
    }
    report.image_of(&run.tree, 0)
}

/// Runs a command line once, over this tree. Standard output and standard error are two new sinks,
/// which fail after so many bytes, or as the row plans.
pub(crate) fn run_once<P: Program>(
    alloc: Global,
    trial: &Trial<'_, P>,
    tree: MemoryTree,
    out_end: Option<usize>,
    err_end: Option<usize>,
) -> Run {
    let mut tree = tree;
    let step = trial.step;
    let mut out = sink(alloc, step.plan.out, out_end);
    let mut err = sink(alloc, step.plan.err, err_end);
    let status = trial
        .program
        .run(alloc, &step.command, &mut tree, &mut out, &mut err);
    Run {
        status,
        tree,
        out,
        err,
    }
}

/// A new sink that fails after `end` bytes, or as the row plans if `end` is None.
fn sink(alloc: Global, plan: SinkPlan, end: Option<usize>) -> MemorySink {
    let mut sink = MemorySink::new(alloc);
    if let Some(end) = end.or(plan.end) {
        sink.fail_after(end);
    }
    if let Some(most) = plan.most
        && most > 0
    {
        sink.take_at_most(most);
    }
    sink
}
