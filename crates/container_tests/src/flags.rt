//! Flags of files in answers.

use row_lines::Answer;

/// Adds a digit for each flag: `1` if it is set, else `0`.
pub(crate) fn add_flags(flags: &[bool], answer: &mut Answer) {
    for flag in flags {
        answer.push(if *flag { b"1" } else { b"0" });
    }
}
