//! Runs the rows about the pool of candidates and the solver that are on standard input, and prints
//! failures and counts. `README.md` describes the form of the rows. The exit status is 0 if no row
//! failed, else 1.
#![tactic(auto)]

mod answer;
mod package;
mod row;
mod rows;

use row_lines::Bytes;
use std::io;
use std::io::{Read, Write};
use std::process::ExitCode;

// Runs the rows of standard input; the status is 1 if one fails.
fn main(rt: HostRuntime) -> io::Result<ExitCode> {
    let alloc = rt.alloc();
    let mut text = Vec::new(alloc);
    rt.stdin().read_to_end(&mut text)?;
    let mut report = Bytes::new(alloc);
    let passed = rows::run_rows(alloc, &text, &mut report)?;
    rt.stdout().write_all(&report.finish()?)?;
    Ok(ExitCode::from(if passed { 0 } else { 1 }))
}
