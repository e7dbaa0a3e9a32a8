//! The results of reading a text of rows: the rows, each with its files, its command lines and the
//! results that are expected of these; or the first fault of the text, with its line.
//! `tests/rows.md` describes the lines.
use base_core::{Name, Words};
use std::alloc::{AllocError, AllocFailed};

/// A row of a text.
pub struct Row {
    /// The name of the row, which no other row has.
    pub name: Vec<u8>,
    /// The number of the line at which the row begins, counted from 1.
    pub line: u64,
    /// The earlier row with whose files this row begins, if there is a line `from`: its index among
    /// all rows, counted from 0.
    pub from: Option<usize>,
    /// The files that exist before the first command line, besides those of the earlier row.
    pub files: Vec<NamedFile>,
    /// The command lines of the row, in order.
    pub steps: Vec<Step>,
}

/// Drops the parts in one call, so that a function that gives up has one drop and not many.
impl Drop for Row {
    fn drop(self) {
        let Row {
            name: _,
            line: _,
            from: _,
            files: _,
            steps: _,
        } = self;
    }
}

/// A path, and the file that exists there before a row, or is expected there after a command line.
#[derive(Drop)]
pub struct NamedFile {
    /// The path.
    pub name: Name,
    /// The bytes of the file; None if no file is expected at the path.
    pub content: Option<Content>,
}

/// The bytes of a file or of standard output.
#[derive(Drop)]
pub struct Content {
    /// These bytes, or the dump text of a container.
    pub text: Vec<u8>,
    /// If `text` is a dump text: the line of the text of rows at which it begins. The bytes are
    /// then those of the container of this dump text.
    pub dump: Option<u64>,
}

/// A command line, the failures that are planned for it, and what is expected of it.
pub struct Step {
    /// The number of the line of the text that has the command line, counted from 1.
    pub line: u64,
    /// The words of the command line, without the program's name.
    pub command: Words,
    /// The planned failures.
    pub plan: Plan,
    /// The expected bytes of standard output.
    pub out: Content,
    /// The expected bytes of standard error.
    pub err: Vec<u8>,
    /// The expected exit status, if the row states one; otherwise 0 is expected.
    pub status: Option<u64>,
    /// What is expected at these paths after the command line. All other files are expected to be
    /// unchanged.
    pub files: Vec<NamedFile>,
    /// The expected names of all files after the command line, if the row states them.
    pub names: Option<Vec<Name>>,
    /// The expected number of calls of the tree, if the row states it.
    pub calls: Option<u64>,
    /// The expected number of calls of the tree that write, if the row states it.
    pub writes: Option<u64>,
    /// The most bytes that one reading call may ask for, if the row states it.
    pub reads: Option<u64>,
}

/// Drops the parts in one call, so that a function that gives up has one drop and not many.
impl Drop for Step {
    fn drop(self) {
        let Step {
            line: _,
            command: _,
            plan: _,
            out: _,
            err: _,
            status: _,
            files: _,
            names: _,
            calls: _,
            writes: _,
            reads: _,
        } = self;
    }
}

/// The planned failures of a command line. In the first run only what `calls`, `out` and `err` plan
/// fails; the further runs have failures of their own.
#[derive(Drop)]
pub struct Plan {
    /// The numbers of the calls of the tree that fail, counted from 1 (`fail N N ..`).
    pub calls: Vec<u64>,
    /// Whether there is a further run for each call, in which this call alone fails (`fail each`).
    pub fail_each: bool,
    /// Whether there is a further run for each call, after which all calls fail (`stop each`).
    pub stop_each: bool,
    /// How many bytes standard output takes before it fails.
    pub out: SinkPlan,
    /// How many bytes standard error takes before it fails.
    pub err: SinkPlan,
}

/// How many bytes a stream takes.
#[derive(Clone, Copy)]
pub struct SinkPlan {
    /// How many bytes the stream takes before it fails, if it is to fail.
    pub end: Option<usize>,
    /// Whether there are further runs, one for each number of bytes after which the stream fails.
    pub each: bool,
    /// How many bytes the stream takes in one write at most, if there is a limit.
    pub most: Option<usize>,
}

impl SinkPlan {
    /// A stream that takes all bytes.
    pub const WHOLE: SinkPlan = SinkPlan {
        end: None,
        each: false,
        most: None,
    };
}

/// The first fault of a text of rows.
#[derive(Clone, Copy)]
pub struct Fault {
    /// The number of the line with the fault, counted from 1.
    pub line: u64,
    /// What is wrong with the line.
    pub trouble: Trouble,
}

/// What is wrong with a line (`tests/rows.md`, the table in "A text that is none").
#[derive(Clone, Copy)]
pub enum Trouble {
    /// The line begins with no word or byte that a line may begin with.
    UnknownWord,
    /// The line has more, or less, after its first word than this word takes.
    BadShape,
    /// The line is before the first row.
    NoRow,
    /// The line begins a row without a name.
    NoName,
    /// The line begins a row without a sentence after the name.
    NoSentence,
    /// The line begins a row with the name of an earlier row.
    TwoOfOneName,
    /// The line names a row (`from`), and no earlier row has this name.
    NoSuchRow,
    /// The path in the line is no path of a file.
    BadPath,
    /// The line is no list of bytes in hexadecimal digits.
    BadHex,
    /// The text that begins after this line is no dump text.
    BadDump,
    /// The line has no decimal number where its word takes one.
    BadNumber,
    /// A quotation in the command line does not end.
    BadQuotation,
    /// The line states an expectation, and no command line is before it.
    NoCommand,
    /// The row before this line has no command line.
    NothingRun,
    /// The line may not follow the lines before it.
    OutOfPlace,
    /// The line states once more what an earlier line states of the same command line.
    SaidTwice,
    /// The last line has no line end.
    NoLineEnd,
    /// There is no memory for the line.
    Memory,
}

impl Trouble {
    /// The text that a report has for this fault (`tests/rows.md`, "A text that is none").
    pub fn text(self) -> &'static str {
        match self {
            Trouble::UnknownWord => "unknown word",
            Trouble::BadShape => "more or less than the word takes",
            Trouble::NoRow => "no row begins before this line",
            Trouble::NoName => "a row without a name",
            Trouble::NoSentence => "a row without a sentence",
            Trouble::TwoOfOneName => "two rows of one name",
            Trouble::NoSuchRow => "no earlier row of this name",
            Trouble::BadPath => "no path of a file",
            Trouble::BadHex => "bad hexadecimal digits",
            Trouble::BadDump => "no dump text",
            Trouble::BadNumber => "no number",
            Trouble::BadQuotation => "a quotation that does not end",
            Trouble::NoCommand => "an expectation before a command",
            Trouble::NothingRun => "the row before runs no command",
            Trouble::OutOfPlace => "a line out of place",
            Trouble::SaidTwice => "said twice",
            Trouble::NoLineEnd => "a last line without its end",
            Trouble::Memory => "out of memory",
        }
    }
}

impl From<AllocError> for Trouble {
    // Out of memory, as a fault of the text.
    fn from(_: AllocError) -> Trouble {
        Trouble::Memory
    }
}

impl<T: Drop> From<AllocFailed<T>> for Trouble {
    // Out of memory, as a fault of the text. The value that was not stored is dropped.
    fn from(_: AllocFailed<T>) -> Trouble {
        Trouble::Memory
    }
}
