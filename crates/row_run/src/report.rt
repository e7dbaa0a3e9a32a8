//! Runs a whole text of rows, and reports of each row that it passed, or what differs and where.
//! The lines are in `tests/rows.md`, "What runs them" and "A text that is none".
use crate::run::run_row;
use row_check::{Program, Report, Row, read_rows};
use std::alloc::{AllocError, Global};

/// Runs all rows of a text, and adds a line to the report for each. Returns whether the text is
/// spelled as rows are, and no row failed.
pub fn run_text<P: Program>(
    alloc: Global,
    program: &P,
    text: &[u8],
    report: &mut Vec<u8>,
) -> Result<bool, AllocError> {
    let mut lines = Report::new(alloc);
    let passed = match read_rows(alloc, text) {
        Ok(rows) => run_rows(program, &rows, &mut lines)?,
        Err(fault) => {
            // The number of the first bad line, and what is wrong there.
            lines.push(b"line ");
            lines.add_number(fault.line);
            lines.push(b": ");
            lines.push(fault.trouble.text().as_bytes());
            lines.push(b"\n");
            false
        }
    };
    report.extend_from_slice(&lines.finish()?)?;
    Ok(passed)
}

/// Runs rows in their order, and adds a line to the report for each, and a last line with the
/// counts. Returns whether no row failed.
fn run_rows<P: Program>(program: &P, rows: &[Row], lines: &mut Report) -> Result<bool, AllocError> {
    // The trees that earlier rows left, or None for a row that failed. A later row can begin with
    // one of these trees.
    let mut left = Vec::new(lines.alloc);
    let mut failed = 0u64;
    for row in rows {
        // What differs in the row.
        let mut report = Report::new(lines.alloc);
        let tree = run_row(program, row, &left, &mut report);
        if report.has_failed() {
            failed = failed.saturating_add(1);
            left.push(None)?;
        } else {
            left.push(Some(tree))?;
        }
        add_row(&row.name, report, lines);
    }
    lines.add_number(rows.len() as u64);
    lines.push(b" rows, ");
    lines.add_number(failed);
    lines.push(b" failed\n");
    Ok(failed == 0)
}

/// Adds the line of a row, given what differs in it: `ok NAME`, or `FAILED NAME: ..`.
fn add_row(name: &[u8], report: Report, lines: &mut Report) {
    let has_failed = report.has_failed();
    lines.push(if has_failed { b"FAILED " } else { b"ok " });
    lines.push(name);
    if has_failed {
        lines.push(b": ");
    }
    match report.finish() {
        Ok(text) => lines.push(&text),
        Err(AllocError) => lines.push(b"out of memory"),
    }
    lines.push(b"\n")
}
