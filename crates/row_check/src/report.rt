//! The report of a row that fails: the comparison of two texts or of two numbers, and the text that
//! says how they differ. `tests/rows.md`, "What runs them", says that this text follows
//! `FAILED NAME: `.
use std::alloc::{AllocError, Global};
use tree_memory::MemoryTree;

/// How many bytes a report shows of a text that differs.
const SHOWN: usize = 60;

// How many of the shown bytes are before the first byte that differs.
const BEFORE: usize = 20;

/// A part of a text in a report.
#[derive(Drop)]
pub enum Piece<'t> {
    /// These bytes.
    Text(&'t [u8]),
    /// The decimal digits of this number.
    Number(u64),
}

/// A text of a report: what differs in a row, which is empty as long as nothing differs; or the
/// lines of all rows. If memory runs out, the text takes no more bytes, and `finish` fails. So
/// adding to a report returns nothing.
#[derive(Drop)]
pub struct Report {
    /// Where memory is taken, also for what the row runs.
    pub alloc: Global,
    /// The text so far.
    text: Vec<u8>,
    /// Whether there was memory for all that was added, and for all that ran.
    outcome: Result<(), AllocError>,
}

impl Report {
    /// An empty report.
    pub fn new(alloc: Global) -> Report {
        Report {
            alloc,
            text: Vec::new(alloc),
            outcome: Ok(()),
        }
    }

    /// The text of the report.
    ///
    /// # Errors
    ///
    /// `AllocError` if memory ran out.
    pub fn finish(self) -> Result<Vec<u8>, AllocError> {
        self.outcome?;
        Ok(self.text)
    }

    /// Whether the row fails: something differs, or memory ran out.
    pub fn has_failed(&self) -> bool {
        self.outcome.is_err() || !self.text.is_empty()
    }

    /// Notes that memory ran out, unless the row fails already.
    pub fn run_out(&mut self) {
        if !self.has_failed() {
            self.outcome = Err(AllocError);
        }
    }

    /// Adds bytes.
    pub fn push(&mut self, bytes: &[u8]) {
        if self.outcome.is_ok() {
            self.outcome = self.text.extend_from_slice(bytes);
        }
    }

    /// Adds the decimal digits of a number.
    pub fn add_number(&mut self, number: u64) {
        let digits = format!(in self.alloc; "{number}");
        self.add_text(digits)
    }

    /// Adds a text that was formatted, if there was memory for it.
    fn add_text(&mut self, text: Result<String, AllocError>) {
        match text {
            Ok(text) => self.push(text.as_bytes()),
            Err(fault) => self.outcome = Err(fault),
        }
    }

    /// Lets the row fail, unless it fails already. The report gets `line N: `, where line N of the
    /// text of rows has the command line or the row, then what differs, and then how it differs.
    pub fn differ(&mut self, line: u64, what: &[Piece<'_>], how: &[u8]) {
        if self.has_failed() {
            return;
        }
        self.push(b"line ");
        self.add_number(line);
        self.push(b": ");
        for piece in what {
            match piece {
                Piece::Text(text) => self.push(text),
                Piece::Number(number) => self.add_number(*number),
            }
        }
        self.push(how)
    }

    /// Compares a text that was found with the wanted one. If they differ, the report has `line`,
    /// the line of the text of rows, `what`, the name of the text, and the index, from 0, of the
    /// first byte that differs. It shows both texts around this byte.
    pub fn compare(&mut self, line: u64, what: &[Piece<'_>], found: &[u8], wanted: &[u8]) {
        if found == wanted || self.has_failed() {
            return;
        }
        let at = first_difference(found, wanted);
        self.differ(line, what, b" differs at byte ");
        self.add_number(at as u64);
        self.push(b": ");
        self.add_shown(found, at);
        self.push(b" where wanted ");
        self.add_shown(wanted, at)
    }

    /// Compares a number that was found with the wanted one. If they differ, the report has `line`,
    /// the line of the text of rows, `what`, the name of the number, and both numbers.
    pub fn compare_numbers(&mut self, line: u64, what: &[Piece<'_>], found: u64, wanted: u64) {
        if found == wanted || self.has_failed() {
            return;
        }
        self.differ(line, what, b" ");
        self.add_number(found);
        self.push(b" where wanted ");
        self.add_number(wanted)
    }

    /// Adds the bytes of a text around the index `at`, between quotation marks. A line end is shown
    /// as `\n`, and any other byte outside of printable ASCII as `\x` and two digits.
    fn add_shown(&mut self, text: &[u8], at: usize) {
        self.push(b"\"");
        for byte in text.iter().skip(at.saturating_sub(BEFORE)).take(SHOWN) {
            let byte = *byte;
            match byte {
                b'\n' => self.push(b"\\n"),
                0x20..=0x7e => self.push(&[byte]),
                _ => {
                    let escaped = format!(in self.alloc; "\\x{byte:02x}");
                    self.add_text(escaped)
                }
            }
        }
        self.push(b"\"")
    }

    /// A copy of these bytes. If memory runs out, the row fails, and the copy is empty.
    pub fn copy_of(&mut self, bytes: &[u8]) -> Vec<u8> {
        match Vec::from_slice(self.alloc, bytes) {
            Ok(copy) => copy,
            Err(AllocError) => {
                self.run_out();
                Vec::new(self.alloc)
            }
        }
    }

    /// The image of a tree that the number `choice` picks, after a crash. The image 0 is a copy of
    /// the tree: it has the same files, all synced, its counts are 0, and no failure is planned. If
    /// memory runs out, the row fails, and the result is an empty tree.
    pub fn image_of(&mut self, tree: &MemoryTree, choice: u64) -> MemoryTree {
        match tree.pick_image(self.alloc, choice) {
            Ok(image) => image,
            Err(AllocError) => {
                self.run_out();
                MemoryTree::new(self.alloc)
            }
        }
    }
}

/// The index of the first byte in which two texts differ, counted from 0. If one text begins with
/// the other, it is the length of the shorter text.
fn first_difference(found: &[u8], wanted: &[u8]) -> usize {
    let mut at = 0usize;
    for (found_byte, wanted_byte) in found.iter().zip(wanted.iter()) {
        if *found_byte != *wanted_byte {
            return at;
        }
        at = at.saturating_add(1);
    }
    at
}
