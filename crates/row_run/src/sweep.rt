//! Makes and checks the further runs of a command line: one for each call of the tree, in which
//! this call fails or after which all calls fail, and one for each number of bytes after which a
//! stream fails. The rules are in `tests/rows.md`, "What goes wrong" and "Crash images and
//! repetitions". A repetition is here called a *second run*.
use crate::run::run_once;
use row_check::{
    MemoryTree, Piece, Program, Report, Run, Sides, Trial, are_alike, images_of, new_image,
};

/// The most calls of the tree that a command line with `fail each` or `stop each` may make. The
/// command lines of rows make far fewer; the bound makes the loop end.
const MOST_CALLS: u64 = 10_000;

/// The status of a run whose tree failed (`docs/commands.md`, "Answers and statuses").
const TREE_FAULT: u64 = 2;

// What a run whose tree failed prints on standard error.
const TREE_FAULT_TEXT: &[u8] = b"ERROR: the tree failed\n";

// How the name of a run with a failed call begins in a report. The number of the call follows.
const FAULT_AT: &[u8] = b"with a fault at call ";

/// The status of a run of which a stream failed (`docs/commands.md`, "Answers and statuses").
const STREAM_FAULT: u64 = 3;

/// A command line with further runs, and the files that it leaves if nothing fails.
#[derive(Drop)]
struct Swept<'a, P: Program> {
    /// The command line, and the files that it finds.
    trial: &'a Trial<'a, P>,
    /// The files that the command line finds and those that it leaves if nothing fails, both after
    /// a recovery.
    sides: &'a Sides,
    /// A second run of the command line, over the files that the first run left.
    again: &'a Run,
}

/// Makes the further runs that the row plans for a command line. `run` is the first run, in which
/// nothing failed that the row does not plan, and which is as the row expects.
pub(crate) fn sweep<P: Program>(trial: &Trial<'_, P>, run: &Run, report: &mut Report) {
    let plan = &trial.step.plan;
    if !plan.fail_each && !plan.stop_each && !plan.out.each && !plan.err.each {
        return;
    }
    let sides = Sides::new(trial, &run.tree, report);
    sides.check_images(trial, &run.tree, report);
    // A second run, over the files that the first run left. Repetitions are compared with it.
    let left = report.image_of(&run.tree, 0);
    let again = run_once(report.alloc, trial, left, None, None);
    let swept = Swept {
        trial,
        sides: &sides,
        again: &again,
    };
    if plan.fail_each {
        swept.fail_each(false, report);
    }
    if plan.stop_each {
        swept.fail_each(true, report);
    }
    if plan.out.each {
        // `true`: standard output is the stream that fails.
        swept.end_each(true, run.out.bytes(), report);
    }
    if plan.err.each {
        // `false`: standard error is the stream that fails.
        swept.end_each(false, run.err.bytes(), report);
    }
}

impl<'a, P: Program> Swept<'a, P> {
    /// Lets each call fail in turn (`fail each`). After a recovery, the tree that is left, and each
    /// of its crash images, must have the old files (which the command line finds) or the new files
    /// (which it leaves if nothing fails). A second run over each of these trees is checked too.
    ///
    /// If `is_stop`, lets all calls fail after each number of calls in turn (`stop each`). Then
    /// only the crash images are checked. If the new files differ from the old files, some image
    /// must have the new files.
    fn fail_each(&self, is_stop: bool, report: &mut Report) {
        // Whether some crash image so far had the files that the command line leaves, and whether a
        // run without calls that write was checked already.
        let mut new_files_seen = false;
        let mut run_without_writes_seen = false;
        // `call` is the call that fails, or with `is_stop` the last call that does not fail.
        let first = if is_stop { 0 } else { 1 };
        for call in first..MOST_CALLS {
            let run = self.run_failing(call, is_stop, report);
            if run.tree.calls() < call || (is_stop && run.tree.calls() == call) {
                // No call failed.
                let (old, new) = (&self.sides.before, &self.sides.after);
                if is_stop && !new_files_seen && !are_alike(old, new, false, report) {
                    let how = b"no stop leaves the files of behind";
                    report.differ(self.trial.step.line, &[], how);
                }
                return self.trial.check_run(&run, report);
            }
            let what = [
                Piece::Text(FAULT_AT),
                Piece::Number(call),
                Piece::Text(b", what is seen"),
            ];
            self.check_seen(&what, &run, TREE_FAULT, b"", TREE_FAULT_TEXT, report);
            // All runs that write nothing leave the same tree, of which one is checked.
            let has_written = run.tree.writes() != 0;
            if has_written || !run_without_writes_seen {
                run_without_writes_seen = run_without_writes_seen || !has_written;
                let seen = self.go_on_from(call, run, is_stop, report);
                new_files_seen = new_files_seen || seen;
            }
            if report.has_failed() {
                return;
            }
        }
        report.differ(self.trial.step.line, &[], b"too many calls")
    }

    /// Runs the command line over a tree whose call with this number, counted from 1, fails, or
    /// with `is_stop` over a tree whose calls all fail after this number of calls.
    fn run_failing(&self, call: u64, is_stop: bool, report: &mut Report) -> Run {
        let mut tree = report.image_of(self.trial.before, 0);
        if is_stop {
            tree.stop_after(call);
        } else if tree.fail_at(&[call]).is_err() {
            report.run_out();
        }
        run_once(report.alloc, self.trial, tree, None, None)
    }

    /// Compares the status and the streams of a run with those that are wanted. `what` names the
    /// run in a report.
    fn check_seen(
        &self,
        what: &[Piece<'_>],
        run: &Run,
        status: u64,
        out: &[u8],
        err: &[u8],
        report: &mut Report,
    ) {
        let line = self.trial.step.line;
        report.compare_numbers(line, what, u64::from(run.status), status);
        report.compare(line, what, run.out.bytes(), out);
        report.compare(line, what, run.err.bytes(), err)
    }

    /// Checks each crash image of the tree that a run left, and, unless `is_stop`, this tree
    /// itself. Each has the files that the command line finds, or those that the command line
    /// leaves. A second run from there is checked too. Returns whether some image has the files
    /// that the command line leaves. `call` is the failed call, for reports.
    fn go_on_from(&self, call: u64, run: Run, is_stop: bool, report: &mut Report) -> bool {
        let Run { mut tree, .. } = run;
        let mut new_files_seen = false;
        for choice in 0..images_of(&tree) {
            let Some(image) = new_image(&tree, choice, report) else {
                continue;
            };
            let place = [
                Piece::Text(FAULT_AT),
                Piece::Number(call),
                Piece::Text(b", image "),
                Piece::Number(choice),
            ];
            let seen = self.run_again_from(call, image, &place, report);
            new_files_seen = new_files_seen || seen;
        }
        if !is_stop {
            // No call fails from now on.
            if tree.fail_at(&[]).is_err() {
                report.run_out();
            }
            let place = [
                Piece::Text(FAULT_AT),
                Piece::Number(call),
                Piece::Text(b", what is left"),
            ];
            self.run_again_from(call, tree, &place, report);
        }
        new_files_seen
    }

    /// Checks that a tree, after a recovery, has the files that the command line finds, or those
    /// that the command line leaves. Then checks a second run of the command line over this tree.
    /// If the second run begins with the files that the command line finds, it has to end as the
    /// row says. Otherwise it has to end as a run over the files that the command line leaves.
    /// Returns whether the tree has the files that the command line leaves. `place` names the tree
    /// in a report.
    fn run_again_from(
        &self,
        call: u64,
        tree: MemoryTree,
        place: &[Piece<'_>],
        report: &mut Report,
    ) -> bool {
        let copy = report.image_of(&tree, 0);
        let found = self.sides.find(self.trial, copy, place, report);
        let second = run_once(report.alloc, self.trial, tree, None, None);
        if found.before {
            self.trial.check_streams(&second, report);
        } else {
            let what = [
                Piece::Text(FAULT_AT),
                Piece::Number(call),
                Piece::Text(b" and a second run, what is seen"),
            ];
            let status = u64::from(self.again.status);
            let (out, err) = (self.again.out.bytes(), self.again.err.bytes());
            self.check_seen(&what, &second, status, out, err, report);
        }
        // In both cases, each crash image after the second run must have the new files.
        self.sides.check_images(self.trial, &second.tree, report);
        found.after
    }

    /// Lets a stream fail after each number of bytes in turn (`ends after each`): standard output
    /// if `is_out`, and else standard error. `whole` is what the command line prints on this stream
    /// if nothing fails. The stream has to get exactly these bytes, and the exit status has to say
    /// that a stream failed. Each crash image of the tree has to have the files that the command
    /// line leaves.
    fn end_each(&self, is_out: bool, whole: &[u8], report: &mut Report) {
        let line = self.trial.step.line;
        for count in 0..whole.len() {
            if report.has_failed() {
                return;
            }
            let tree = report.image_of(self.trial.before, 0);
            let out_end = if is_out { Some(count) } else { None };
            let err_end = if is_out { None } else { Some(count) };
            let run = run_once(report.alloc, self.trial, tree, out_end, err_end);
            let what = [
                Piece::Text(b"with a stream that ends after "),
                Piece::Number(count as u64),
                Piece::Text(b" bytes, what is seen"),
            ];
            report.compare_numbers(line, &what, u64::from(run.status), STREAM_FAULT);
            if is_out {
                report.compare(line, &what, run.out.bytes(), &whole[..count]);
            } else {
                report.compare(line, &what, run.err.bytes(), &whole[..count]);
            }
            self.sides.check_images(self.trial, &run.tree, report);
        }
    }
}
