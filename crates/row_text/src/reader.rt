//! Reads a text of rows line by line: rows, their command lines, and the results that are expected
//! of these. Each line belongs to the last row, command line or file before it. The forms of lines
//! are in `tests/rows.md`, "Lines"; what is wrong with a line is in "A text that is none".
use crate::parts::{name_of, plan_stream};
use crate::row::{Content, Fault, Plan, Row, SinkPlan, Step, Trouble};
use crate::words::{number, number_at_most, split_text, words_of};
use row_lines::value_named;
use std::alloc::Global;

/// To which text the next line `|` adds a line, and of which text a line `\` removes the last line
/// end.
#[derive(Clone, Copy)]
pub(crate) enum Target {
    /// Neither a line `|` nor a line `\` may come next.
    Nothing,
    /// The last file that exists before the first command line (`file`), written in this form.
    Given(Form),
    /// The last file that is expected after the command line (`then`), written in this form.
    Wanted(Form),
    /// The expected standard output of the command line, written in this form: as text in lines
    /// that begin with `>`, and otherwise in lines `|` (`out hex`, `out dump`).
    Printed(Form),
    /// The expected standard error of the command line, in lines that begin with `!`.
    Err,
}

/// How the bytes of a file, or of standard output, are written in the lines of a row.
#[derive(Clone, Copy)]
pub(crate) enum Form {
    /// As they are, line by line.
    Text,
    /// In hexadecimal digits.
    Hex,
    /// As the dump text of a container.
    Dump,
}

/// The first word of a line, or the mark with which the line begins. The tables in `tests/rows.md`,
/// "Lines" and "What goes wrong", say what a line with each word means.
#[derive(Clone, Copy)]
enum Word {
    /// `|`: a line of the file or of the output that was named last.
    Piece,
    /// `>`: a line that standard output is expected to have.
    Printed,
    /// `!`: a line that standard error is expected to have.
    Complaint,
    /// `$`: a command line.
    Command,
    Row,
    From,
    In,
    File,
    Then,
    Names,
    Status,
    Calls,
    Writes,
    Reads,
    Fail,
    Stop,
    Out,
    Err,
}

// For each word that a line may begin with: its bytes, and its variant of `Word`.
#[rattlefmt::skip]
const WORDS: [(&[u8], Word); 18] = [
    (b"|", Word::Piece),
    (b">", Word::Printed),
    (b"!", Word::Complaint),
    (b"$", Word::Command),
    (b"row", Word::Row),
    (b"from", Word::From),
    (b"in", Word::In),
    (b"file", Word::File),
    (b"then", Word::Then),
    (b"names", Word::Names),
    (b"status", Word::Status),
    (b"calls", Word::Calls),
    (b"writes", Word::Writes),
    (b"reads", Word::Reads),
    (b"fail", Word::Fail),
    (b"stop", Word::Stop),
    (b"out", Word::Out),
    (b"err", Word::Err),
];

/// The state of the reader after some lines of a text: the complete rows, and the last row and its
/// last command line, which may have further lines.
#[derive(Drop)]
pub(crate) struct Reader {
    /// Where memory is taken.
    pub(crate) alloc: Global,
    /// The number of the line that is being read, counted from 1.
    pub(crate) line: u64,
    /// The complete rows.
    rows: Vec<Row>,
    /// The last row, which may have further lines; None before the first row.
    pub(crate) row: Option<Row>,
    /// The last command line of this row, which may have further lines; None before its first one.
    pub(crate) step: Option<Step>,
    /// The planned failures of the next command line.
    pub(crate) plan: Plan,
    /// To which text a line `|` adds a line, and of which a line `\` removes the last line end.
    pub(crate) target: Target,
}

/// The rows of a text, or its first fault.
pub fn read_rows(alloc: Global, text: &[u8]) -> Result<Vec<Row>, Fault> {
    let mut reader = Reader {
        alloc,
        line: 0,
        rows: Vec::new(alloc),
        row: None,
        step: None,
        plan: empty_plan(alloc),
        target: Target::Nothing,
    };
    match reader.read_text(text) {
        Ok(()) => Ok(reader.rows),
        Err(trouble) => Err(Fault {
            line: reader.line,
            trouble,
        }),
    }
}

/// The plan by which nothing fails.
fn empty_plan(alloc: Global) -> Plan {
    Plan {
        calls: Vec::new(alloc),
        fail_each: false,
        stop_each: false,
        out: SinkPlan::WHOLE,
        err: SinkPlan::WHOLE,
    }
}

impl Reader {
    /// Reads all lines of a text. After a fault, `self.line` is the number of the line with the
    /// fault.
    fn read_text(&mut self, text: &[u8]) -> Result<(), Trouble> {
        // The previous part of the text. It is read as a line only when the next part shows that a
        // line end follows it. The last part is no line, and has to be empty.
        let mut rest = None;
        for line in text.split(|byte| *byte == b'\n') {
            if let Some(line) = rest {
                self.read_line(line)?;
            }
            self.line = self.line.saturating_add(1);
            rest = Some(line);
        }
        match rest {
            Some([]) | None => self.end_row(),
            Some(_) => Err(Trouble::NoLineEnd),
        }
    }

    /// Reads a line. Its first byte, or else its first word, says what kind of line it is. After an
    /// empty line, no line may add to the text before it.
    fn read_line(&mut self, line: &[u8]) -> Result<(), Trouble> {
        match line {
            [] => {
                self.target = Target::Nothing;
                Ok(())
            }
            // A comment, which is skipped.
            [b'#', ..] => Ok(()),
            // The text that was written last has no line end after its last line.
            [b'\\'] => {
                let outcome = self.edit_text(None);
                self.target = Target::Nothing;
                outcome
            }
            // Nothing may follow the `\` in its line.
            [b'\\', ..] => Err(Trouble::BadShape),
            _ => {
                let (word, rest) = split_text(line, b' ');
                match value_named(&WORDS, word) {
                    Some(word) => self.read_word(word, rest),
                    None => Err(Trouble::UnknownWord),
                }
            }
        }
    }

    /// Reads the rest of a line, which follows its first word.
    fn read_word(&mut self, word: Word, rest: &[u8]) -> Result<(), Trouble> {
        if let Word::Piece = word {
            return match self.target {
                // These texts are in lines that begin with `>` and `!`.
                Target::Printed(Form::Text) | Target::Err => Err(Trouble::OutOfPlace),
                _ => self.edit_text(Some(rest)),
            };
        }
        self.target = Target::Nothing;
        match word {
            Word::Printed => {
                self.target = Target::Printed(Form::Text);
                self.edit_text(Some(rest))
            }
            Word::Complaint => {
                self.target = Target::Err;
                self.edit_text(Some(rest))
            }
            Word::Command => self.begin_step(rest),
            Word::Row => self.begin_row(rest),
            Word::From => self.begin_with(rest),
            Word::In => self.keep_in_memory(rest),
            Word::File => self.add_given(rest),
            Word::Then => self.add_wanted(rest),
            Word::Names => self.add_names(rest),
            Word::Fail => self.plan_failures(false, rest),
            Word::Stop => self.plan_failures(true, rest),
            Word::Out => self.read_out(rest),
            Word::Err => plan_stream(&mut self.plan.err, rest),
            // The rest of the line is `N at most`, and of other kinds of lines `N`.
            Word::Reads => self.add_count(word, number_at_most(rest)),
            _ => self.add_count(word, number(rest)),
        }
    }
}

/// Rows.
impl Reader {
    /// Begins a row, given what follows the word `row` in its line: `NAME: SENTENCE`.
    fn begin_row(&mut self, rest: &[u8]) -> Result<(), Trouble> {
        self.end_row()?;
        // What is before the first `:`, and what follows it.
        let (name, sentence) = split_text(rest, b':');
        if name.is_empty() || name.contains(&b' ') {
            return Err(Trouble::NoName);
        }
        if self.number_of(name).is_some() {
            return Err(Trouble::TwoOfOneName);
        }
        // The sentence is a blank and at least one more byte.
        if sentence.len() < 2 {
            return Err(Trouble::NoSentence);
        }
        self.row = Some(Row {
            name: Vec::from_slice(self.alloc, name)?,
            line: self.line,
            from: None,
            files: Vec::new(self.alloc),
            steps: Vec::new(self.alloc),
        });
        Ok(())
    }

    /// The number of the complete row with this name, counted from 0, or None if there is none.
    fn number_of(&self, name: &[u8]) -> Option<usize> {
        for i in 0..self.rows.len() {
            if self.rows[i].name.as_slice() == name {
                return Some(i);
            }
        }
        None
    }

    /// Ends the last row, if there is one: adds its last command line to it, and the row to the
    /// complete rows. A row without a command line is a fault.
    fn end_row(&mut self) -> Result<(), Trouble> {
        if let Some(mut row) = self.row.take() {
            let Some(step) = self.step.take() else {
                return Err(Trouble::NothingRun);
            };
            row.steps.push(step)?;
            self.rows.push(row)?;
        }
        self.plan = empty_plan(self.alloc);
        Ok(())
    }

    /// Reads the rest of a line `from NAME`: the row begins with the files that the earlier row
    /// NAME leaves. No line `file` of the row may be before this line.
    fn begin_with(&mut self, rest: &[u8]) -> Result<(), Trouble> {
        let Some(number) = self.number_of(rest) else {
            return Err(Trouble::NoSuchRow);
        };
        // The line may follow neither a command line of its row, nor a line `from` or `file`.
        if self.step.is_some() {
            return Err(Trouble::OutOfPlace);
        }
        let Some(row) = &mut self.row else {
            return Err(Trouble::NoRow);
        };
        if row.from.is_some() || !row.files.is_empty() {
            return Err(Trouble::OutOfPlace);
        }
        row.from = Some(number);
        Ok(())
    }
}

/// Command lines, and what is expected of them.
impl Reader {
    /// Begins a command line, with the failures that were planned for it. The command line before
    /// it, if there is one, is complete.
    fn begin_step(&mut self, text: &[u8]) -> Result<(), Trouble> {
        let Some(row) = &mut self.row else {
            return Err(Trouble::NoRow);
        };
        if let Some(step) = self.step.take() {
            row.steps.push(step)?;
        }
        self.step = Some(Step {
            line: self.line,
            command: words_of(self.alloc, text)?,
            // For the next command line, no failures are planned yet.
            plan: std::mem::replace(&mut self.plan, empty_plan(self.alloc)),
            out: Content {
                text: Vec::new(self.alloc),
                dump: None,
            },
            err: Vec::new(self.alloc),
            status: None,
            files: Vec::new(self.alloc),
            names: None,
            calls: None,
            writes: None,
            reads: None,
        });
        Ok(())
    }

    /// Adds an expected number to the command line, which may state it only once. `word` says which
    /// number: the exit status, the number of calls of the tree, the number of calls that write, or
    /// the most bytes that one read may ask for.
    fn add_count(&mut self, word: Word, number: Result<u64, Trouble>) -> Result<(), Trouble> {
        let number = number?;
        let Some(step) = &mut self.step else {
            return Err(Trouble::NoCommand);
        };
        let earlier = match word {
            Word::Status => step.status.replace(number),
            Word::Calls => step.calls.replace(number),
            Word::Writes => step.writes.replace(number),
            // `Word::Reads`: the callers pass no other word.
            _ => step.reads.replace(number),
        };
        match earlier {
            None => Ok(()),
            Some(_) => Err(Trouble::SaidTwice),
        }
    }

    /// Reads the rest of a line `names PATH PATH ..`: after the command line, the tree has exactly
    /// the files at these paths.
    fn add_names(&mut self, rest: &[u8]) -> Result<(), Trouble> {
        let mut names = Vec::new(self.alloc);
        if !rest.is_empty() {
            for path in rest.split(|byte| *byte == b' ') {
                names.push(name_of(self.alloc, path)?)?;
            }
        }
        let Some(step) = &mut self.step else {
            return Err(Trouble::NoCommand);
        };
        match step.names.replace(names) {
            None => Ok(()),
            // The command line has such a line already.
            Some(_) => Err(Trouble::SaidTwice),
        }
    }
}
