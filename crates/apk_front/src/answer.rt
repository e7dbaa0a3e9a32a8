//! The answer of a run, and how its verdict is printed on the two sinks, standard output and
//! standard error. `apk` calls `show` last. The rules are in `docs/commands.md`, "Answers and
//! statuses", and the texts in "Error lines".
ghost use Rattle.std.specs.Prelude.{◌≡◌, ◌≢◌, [], OnErr, Err};
ghost use Rattle.apk_front.specs.Answers.{GetsLineOrFailsWithPrefix};
ghost use Rattle.apk_front.specs.Status.{status_of};
ghost use Rattle.apk_front.specs.Verdicts.{IsPrinted, IsRefusalPrinted, IsVerdictPrinted, as_outcome};
ghost use Rattle.base_core.specs.Files.{Files};
ghost use Rattle.base_core.specs.Sink.{sink_before_and_after, SinkCountsOnlyRiseWithoutMisuse};
ghost use Rattle.base_core.specs.Write.{Writes};
ghost use Rattle.outcome.specs.Outcome.{just_refusal, just_report};

use base_core::{Sink, SinkFault, Text, TreeFault, write_all};
use report_core::{Refusal, write_error};
use std::alloc::Global;

/// The answer of a run.
#[derive(Drop)]
pub enum Answer {
    /// The command ended without a refusal, and its report was printed.
    Ok,
    /// The command was refused, for a fault of its arguments or files.
    Refused(Refusal),
    /// A call on the tree failed with an I/O error.
    TreeFault,
    /// A call on standard output or standard error failed. The files left are those of the outcome,
    /// whose bytes could not all be printed.
    OutFault,
    /// Memory ran out.
    Memory,
}

/// The exit status of an answer: 0 for `Ok`, 1 for `Refused`, 2 for `TreeFault`, 3 for `OutFault`,
/// 4 for `Memory`.
pub fn status(answer: &Answer) -> u8
    ensures { result ≡ status_of answer.now }
{
    match answer {
        Answer::Ok => 0,
        Answer::Refused(_) => 1,
        Answer::TreeFault => 2,
        Answer::OutFault => 3,
        Answer::Memory => 4,
    }
}

/// The result of a command: a report, and a refusal after it, if there is one.
#[derive(Drop)]
pub(crate) struct Verdict {
    /// The bytes for standard output.
    pub(crate) report: Text,
    /// Why the command is refused: a line on standard error, after the report.
    pub(crate) refusal: Option<Refusal>,
}

impl Verdict {
    /// The verdict of a command that prints nothing and is not refused.
    pub(crate) fn empty(alloc: Global) -> Verdict
        // Over any files, the verdict is that of this outcome, which leaves them as they are.
        ensures { (files : Files) → as_outcome files result ≡ just_report files [] }
    {
        Verdict::reported(Text::from_vec(Vec::new(alloc)))
    }

    /// The verdict of a command that prints a report and is not refused.
    pub(crate) fn reported(report: Text) -> Verdict
        // Over any files, the verdict is that of this outcome, which leaves them as they are.
        ensures { (files : Files) → as_outcome files result ≡ just_report files report }
    {
        Verdict {
            report,
            refusal: None,
        }
    }

    /// The verdict of a command that is refused and prints no report.
    pub(crate) fn refused(alloc: Global, refusal: Refusal) -> Verdict
        // Over any files, the verdict is that of this outcome, which leaves them as they are.
        ensures { (files : Files) → as_outcome files result ≡ just_refusal files refusal }
    {
        Verdict {
            report: Text::from_vec(Vec::new(alloc)),
            refusal: Some(refusal),
        }
    }
}

/// Prints what was judged, and returns the run's answer. For a verdict, this is Ok, the verdict's
/// refusal, or the fault of a sink. Otherwise it is the I/O error of the tree, or out of memory.
pub(crate) fn show<O: Sink, E: Sink>(
    judged: Result<Verdict, TreeFault>,
    out: &mut O,
    err: &mut E,
) -> Answer
    // The answer and the bytes printed are those of the verdict, unless a sink fails.
    ensures shown { IsVerdictPrinted judged result
        (sink_before_and_after O.bytes O.counts out.old out.new)
        (sink_before_and_after E.bytes E.counts err.old err.new) }
    // Of each sink: no count falls, and no call is a misuse.
    ensures out_counts { SinkCountsOnlyRiseWithoutMisuse
        (sink_before_and_after O.bytes O.counts out.old out.new) }
    ensures err_counts { SinkCountsOnlyRiseWithoutMisuse
        (sink_before_and_after E.bytes E.counts err.old err.new) }
{
    match judged {
        Ok(verdict) => print_verdict(verdict, out, err),
        Err(fault) => print_fault(fault, out, err),
    }
}

// Prints the line of an I/O error of the file tree, or of running out of memory. Nothing is written
// to `_out`; the clauses name it.
fn print_fault<O: Sink, E: Sink>(fault: TreeFault, _out: &mut O, err: &mut E) -> Answer
    // The line of the fault is printed on standard error, unless the sink fails.
    ensures shown { IsVerdictPrinted (Err fault) result
        (sink_before_and_after O.bytes O.counts _out.old _out.new)
        (sink_before_and_after E.bytes E.counts err.old err.new) }
    // Of each sink: no count falls, and no call is a misuse.
    ensures out_counts { SinkCountsOnlyRiseWithoutMisuse
        (sink_before_and_after O.bytes O.counts _out.old _out.new) }
    ensures err_counts { SinkCountsOnlyRiseWithoutMisuse
        (sink_before_and_after E.bytes E.counts err.old err.new) }
{
    match fault {
        TreeFault::Disk => {
            print_line(b"ERROR: the tree failed\n", err);
            Answer::TreeFault
        }
        TreeFault::Memory => {
            print_line(b"ERROR: out of memory\n", err);
            Answer::Memory
        }
    }
}

// Prints the report, and then the line of the refusal.
fn print_verdict<O: Sink, E: Sink>(verdict: Verdict, out: &mut O, err: &mut E) -> Answer
    // The report and the refusal of the verdict are printed, unless a sink fails.
    ensures printed { (files : Files) → IsPrinted (as_outcome files verdict) result
        (sink_before_and_after O.bytes O.counts out.old out.new)
        (sink_before_and_after E.bytes E.counts err.old err.new) }
    // Of each sink: no count falls, and no call is a misuse.
    ensures out_counts { SinkCountsOnlyRiseWithoutMisuse
        (sink_before_and_after O.bytes O.counts out.old out.new) }
    ensures err_counts { SinkCountsOnlyRiseWithoutMisuse
        (sink_before_and_after E.bytes E.counts err.old err.new) }
{
    match print_report(verdict.report.as_bytes(), out) {
        Ok(()) => print_refusal(verdict.refusal, err),
        Err(_) => Answer::OutFault,
    }
}

// Prints a report. An empty one makes no call on the sink, so it cannot fail.
fn print_report<O: Sink>(bytes: &[u8], out: &mut O) -> Result<(), SinkFault>
    // The sink gets all bytes, or a prefix of them if it fails.
    ensures written { Writes bytes.now
        (sink_before_and_after O.bytes O.counts out.old out.new) result }
    // Only a report with at least one byte can fail.
    ensures some { OnErr result (bytes.now ≢ []) }
{
    if bytes.is_empty() {
        return Ok(());
    }
    write_all(out, bytes)
}

// Prints the line of a refusal, if there is one, and returns the run's answer: the refusal, Ok
// without one, or the fault of the sink.
fn print_refusal<E: Sink>(refusal: Option<Refusal>, err: &mut E) -> Answer
    // The answer and the bytes are those of the refusal, or of the sink's fault.
    ensures printed { IsRefusalPrinted refusal result
        (sink_before_and_after E.bytes E.counts err.old err.new) }
    // No count of the sink falls, and no call is a misuse.
    ensures counts { SinkCountsOnlyRiseWithoutMisuse
        (sink_before_and_after E.bytes E.counts err.old err.new) }
{
    let Some(refusal) = refusal else {
        return Answer::Ok;
    };
    match write_error(&refusal, err) {
        Ok(()) => Answer::Refused(refusal),
        Err(_) => Answer::OutFault,
    }
}

// Prints the line of an I/O error of the tree, or of running out of memory. A fault of the sink is
// dropped: the run answers the first fault.
fn print_line<E: Sink>(line: &[u8], err: &mut E)
    // The sink gets the whole line, or a prefix of it if the sink fails.
    ensures line { GetsLineOrFailsWithPrefix
        (sink_before_and_after E.bytes E.counts err.old err.new) line.now }
    // No count of the sink falls, and no call is a misuse.
    ensures counts { SinkCountsOnlyRiseWithoutMisuse
        (sink_before_and_after E.bytes E.counts err.old err.new) }
{
    let _ = write_all(err, line);
}
