//! Runs all rows of a text, compares their answers with the expected ones, and makes the printed
//! report. The README of this crate describes the lines of rows.
use crate::answer::{add_parts, answer};
use crate::row::{Row, number_of, split_word};
use row_lines::{Bytes, value_named};
use std::alloc::{AllocError, Global};

/// Runs all rows of a text, and returns whether none failed. Adds a line to the report for each
/// answer that is not the expected one, and a last line with counts.
pub(crate) fn run_rows(alloc: Global, text: &[u8], report: &mut Bytes) -> Result<bool, AllocError> {
    let mut run = Run {
        alloc,
        row: Row::new(alloc, b""),
        query: None,
        rows: 0,
        answers: 0,
        failed: 0,
    };
    for line in text.split(|byte| *byte == b'\n') {
        run.take_line(line, report)?;
    }
    run.set_question(None, report);
    report.push_text(format!(in alloc;
        "{} rows, {} answers, {} failed\n",
        run.rows, run.answers, run.failed
    ));
    Ok(run.failed == 0)
}

/// The kinds of lines of a text of rows. The first word of a line says its kind. The README of this
/// crate has a row for each.
#[derive(Clone, Copy)]
enum Line {
    /// A blank line, or `#` and a comment.
    Comment,
    /// `row NAME: SENTENCE`: a new row begins.
    Row,
    /// `repository PACKAGES`, `repository @TAG PACKAGES`: a repository of the row.
    Repository,
    /// `installed PACKAGES`: the installed packages of the row.
    Installed,
    /// `world ENTRIES`: the dependencies that the user asks for.
    World,
    /// `upgrade all`, `upgrade NAMES`: the packages to upgrade.
    Upgrade,
    /// `times N`: how often each later answer is computed.
    Times,
    /// `$ QUESTION`: a question about the row so far.
    Question,
    /// `> ANSWER`: the expected answer to the question before.
    Expected,
    /// `?`: the answer to the question before is printed, and compared with nothing.
    Printed,
}

/// For each kind of line, the first word of such a line.
const LINES: [(&[u8], Line); 11] = [
    (b"", Line::Comment),
    (b"#", Line::Comment),
    (b"row", Line::Row),
    (b"repository", Line::Repository),
    (b"installed", Line::Installed),
    (b"world", Line::World),
    (b"upgrade", Line::Upgrade),
    (b"times", Line::Times),
    (b"$", Line::Question),
    (b">", Line::Expected),
    (b"?", Line::Printed),
];

/// The state of a run over rows.
#[derive(Drop)]
struct Run<'t> {
    /// The allocator of answers and of the report.
    alloc: Global,
    /// The current row, as its lines so far describe it.
    row: Row<'t>,
    /// The last question, until the line with its expected answer.
    query: Option<&'t [u8]>,
    /// How many rows have begun so far.
    rows: u64,
    /// How many answers were computed.
    answers: u64,
    /// How many failures were reported: wrong answers, and lines that are unknown or at a wrong
    /// place.
    failed: u64,
}

impl<'t> Run<'t> {
    // Takes one line; its first word says what to do.
    fn take_line(&mut self, line: &'t [u8], report: &mut Bytes) -> Result<(), AllocError> {
        let (word, rest) = split_word(line);
        let Some(kind) = value_named(&LINES, word) else {
            self.fail(line, b"the line is no row's", report);
            return Ok(());
        };
        match kind {
            Line::Comment => {}
            Line::Row => self.begin_row(rest, report),
            Line::Repository => return self.row.add_repository(self.alloc, rest),
            Line::Installed => return self.row.set_installed(self.alloc, rest),
            Line::World => self.row.world = rest,
            Line::Upgrade => self.row.upgraded = rest,
            Line::Times => self.row.times = number_of(rest),
            Line::Question => self.set_question(Some(rest), report),
            Line::Expected => return self.end_question(Some(rest), report),
            Line::Printed => return self.end_question(None, report),
        }
        Ok(())
    }

    // Begins a new row, whose name is the first word of its title.
    fn begin_row(&mut self, title: &'t [u8], report: &mut Bytes) {
        self.set_question(None, report);
        let (name, _) = split_word(title);
        self.row = Row::new(self.alloc, name);
        self.rows = self.rows.saturating_add(1);
    }

    // Stores a question until the line with its expected answer; None where no question follows.
    // Reports the last question as a failure if no line with its expected answer followed it.
    fn set_question(&mut self, next: Option<&'t [u8]>, report: &mut Bytes) {
        let last = self.query.take();
        self.query = next;
        if let Some(query) = last {
            self.fail(query, b"no answer is wanted", report);
        }
    }

    // Compares the answer to the last question with the expected one, `wanted`. If no answer is
    // expected, it is printed.
    fn end_question(
        &mut self,
        wanted: Option<&[u8]>,
        report: &mut Bytes,
    ) -> Result<(), AllocError> {
        let Some(query) = self.query.take() else {
            self.fail(wanted.unwrap_or(b"?"), b"nothing is asked", report);
            return Ok(());
        };
        self.answers = self.answers.saturating_add(1);
        let found = answer(self.alloc, &self.row, query)?;
        match wanted {
            None => add_parts(&[self.row.name, b": ", query, b": ", &found, b"\n"], report),
            Some(wanted) if wanted == found.as_slice() => {}
            Some(_) => self.fail(query, &found, report),
        }
        Ok(())
    }

    // Appends a failure to the report: the question or the line that failed, and why. Counts it.
    fn fail(&mut self, what: &[u8], why: &[u8], report: &mut Bytes) {
        self.failed = self.failed.saturating_add(1);
        add_parts(
            &[b"FAILED ", self.row.name, b": ", what, b": ", why, b"\n"],
            report,
        )
    }
}
