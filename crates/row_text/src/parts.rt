//! Reads the lines of a row about files before and after a command line, and about planned
//! failures; `reader` calls these functions. The forms of lines are in `tests/rows.md`, "Lines" and
//! "What goes wrong"; what is wrong with a line is in "A text that is none".
use crate::reader::{Form, Reader, Target};
use crate::row::{Content, NamedFile, SinkPlan, Trouble};
use crate::words::{add_hex, number, number_at_most, split_text};
use base_core::Name;
use row_lines::value_named;
use std::alloc::Global;

// For each word that ends a line `file`, `then` or `out`: how the bytes of the file or of the
// output are written in the lines `|` that follow.
#[rattlefmt::skip]
const FORMS: [(&[u8], Form); 3] = [
    (b"text", Form::Text),
    (b"hex", Form::Hex),
    (b"dump", Form::Dump),
];

/// Files.
impl Reader {
    /// Reads the rest of a line `in memory`: the row runs only on a tree in memory, not in a folder
    /// of the host. All rows that are read here run in memory, so that the line has no effect.
    pub(crate) fn keep_in_memory(&mut self, rest: &[u8]) -> Result<(), Trouble> {
        if rest != b"memory".as_slice() {
            return Err(Trouble::BadShape);
        }
        match &self.row {
            // The line is within a row.
            Some(_) => Ok(()),
            None => Err(Trouble::NoRow),
        }
    }

    /// Reads the rest of a line `file PATH FORM`: before the first command line, a file is at PATH.
    pub(crate) fn add_given(&mut self, rest: &[u8]) -> Result<(), Trouble> {
        // Such a line may not follow a command line of its row.
        if self.step.is_some() {
            return Err(Trouble::OutOfPlace);
        }
        // The path, and the word after it, such as `text`.
        let (path, word) = split_text(rest, b' ');
        let Some(form) = value_named(&FORMS, word) else {
            return Err(Trouble::UnknownWord);
        };
        let file = NamedFile {
            name: name_of(self.alloc, path)?,
            content: Some(empty_content(self.alloc, form, self.line)),
        };
        let Some(row) = &mut self.row else {
            return Err(Trouble::NoRow);
        };
        row.files.push(file)?;
        self.target = Target::Given(form);
        Ok(())
    }

    /// Reads the rest of a line `then PATH FORM` or `then PATH absent`: what is expected at PATH
    /// after the command line.
    pub(crate) fn add_wanted(&mut self, rest: &[u8]) -> Result<(), Trouble> {
        // The path, and the word after it, such as `text` or `absent`.
        let (path, word) = split_text(rest, b' ');
        let name = name_of(self.alloc, path)?;
        let form = value_named(&FORMS, word);
        let content = match form {
            Some(form) => Some(empty_content(self.alloc, form, self.line)),
            None if word == b"absent".as_slice() => None,
            None => return Err(Trouble::UnknownWord),
        };
        let Some(step) = &mut self.step else {
            return Err(Trouble::NoCommand);
        };
        step.files.push(NamedFile { name, content })?;
        if let Some(form) = form {
            self.target = Target::Wanted(form);
        }
        Ok(())
    }

    /// Adds the line `piece` to the text that was named last. Without a line, removes the last line
    /// end of this text.
    pub(crate) fn edit_text(&mut self, piece: Option<&[u8]>) -> Result<(), Trouble> {
        let target = self.target;
        match target {
            Target::Nothing => return Err(Trouble::OutOfPlace),
            Target::Given(form) => match &mut self.row {
                Some(row) => return edit_last(&mut row.files, form, piece),
                None => return Err(Trouble::NoRow),
            },
            _ => {}
        }
        let Some(step) = &mut self.step else {
            return Err(Trouble::NoCommand);
        };
        match target {
            Target::Wanted(form) => edit_last(&mut step.files, form, piece),
            // After a line `out dump`, no other output may be expected.
            Target::Printed(Form::Text) if step.out.dump.is_some() => Err(Trouble::OutOfPlace),
            Target::Printed(form) => edit_bytes(&mut step.out.text, form, piece),
            // `Target::Err`.
            _ => edit_bytes(&mut step.err, Form::Text, piece),
        }
    }
}

/// The path as a name. A text that is no valid path of a file is a fault.
pub(crate) fn name_of(alloc: Global, path: &[u8]) -> Result<Name, Trouble> {
    match Name::read(alloc, path)? {
        Some(name) => Ok(name),
        None => Err(Trouble::BadPath),
    }
}

/// An empty content, to which lines in this form can be added. With a dump text, the content keeps
/// `line`, the number of the line of the text of rows at which the dump text begins, for reports.
fn empty_content(alloc: Global, form: Form, line: u64) -> Content {
    Content {
        text: Vec::new(alloc),
        dump: match form {
            Form::Text | Form::Hex => None,
            Form::Dump => Some(line),
        },
    }
}

/// Adds the line `piece` to the last of these files, in the file's form. Without a line, removes
/// the last line end of this file. If there is no file, or if the last one is expected to be
/// absent, the line is out of place.
fn edit_last(files: &mut Vec<NamedFile>, form: Form, piece: Option<&[u8]>) -> Result<(), Trouble> {
    let Some(file) = files.last_mut() else {
        return Err(Trouble::OutOfPlace);
    };
    match &mut file.content {
        Some(content) => edit_bytes(&mut content.text, form, piece),
        None => Err(Trouble::OutOfPlace),
    }
}

/// Adds the line `piece` to a text: the bytes that hexadecimal digits denote, or the line itself
/// with a line end. Without a line, removes the last byte of the text, which is a line end. This is
/// out of place in a text without lines, and in hexadecimal digits and dump texts.
fn edit_bytes(text: &mut Vec<u8>, form: Form, piece: Option<&[u8]>) -> Result<(), Trouble> {
    match (form, piece) {
        (Form::Hex, Some(piece)) => add_hex(text, piece),
        (_, Some(piece)) => {
            text.extend_from_slice(piece)?;
            text.push(b'\n')?;
            Ok(())
        }
        (Form::Text, None) => match text.pop() {
            Some(_) => Ok(()),
            None => Err(Trouble::OutOfPlace),
        },
        (_, None) => Err(Trouble::OutOfPlace),
    }
}

/// Standard output, and planned failures of the next command line.
impl Reader {
    /// Reads the rest of a line `out ..`. With `hex` or `dump`, the expected output of the last
    /// command line follows in this form, in lines `|`. Otherwise the line plans how many bytes
    /// standard output takes of the next command line.
    pub(crate) fn read_out(&mut self, rest: &[u8]) -> Result<(), Trouble> {
        let form = match value_named(&FORMS, rest) {
            // There is no line `out text`: the expected text is in lines that begin with `>`.
            Some(Form::Text) | None => return plan_stream(&mut self.plan.out, rest),
            Some(form) => form,
        };
        let Some(step) = &mut self.step else {
            return Err(Trouble::NoCommand);
        };
        match form {
            Form::Dump => {
                // Some output is expected already.
                if step.out.dump.is_some() || !step.out.text.is_empty() {
                    return Err(Trouble::SaidTwice);
                }
                step.out.dump = Some(self.line);
            }
            _ => {
                if step.out.dump.is_some() {
                    return Err(Trouble::OutOfPlace);
                }
            }
        }
        self.target = Target::Printed(form);
        Ok(())
    }

    /// Reads the rest of a line `fail N N ..`, by which the calls of the tree with these numbers
    /// fail, or `fail each`, by which each call fails in a further run of its own. If `is_stop`,
    /// reads the rest of a line `stop each`, by which there are further runs: in each of them, all
    /// calls after some number of calls fail.
    pub(crate) fn plan_failures(&mut self, is_stop: bool, rest: &[u8]) -> Result<(), Trouble> {
        let is_each = rest == b"each".as_slice();
        if is_stop && !is_each {
            return Err(Trouble::BadShape);
        }
        let mut calls = Vec::new(self.alloc);
        if !is_each {
            for call in rest.split(|byte| *byte == b' ') {
                calls.push(number(call)?)?;
            }
        }
        if self.row.is_none() {
            return Err(Trouble::NoRow);
        }
        // Only `fail each` and `stop each` may be planned together.
        let excludes_fail_each = !is_stop;
        let excludes_stop_each = is_stop || !is_each;
        if !self.plan.calls.is_empty()
            || (self.plan.fail_each && excludes_fail_each)
            || (self.plan.stop_each && excludes_stop_each)
        {
            return Err(Trouble::SaidTwice);
        }
        self.plan.calls = calls;
        self.plan.fail_each = self.plan.fail_each || (is_each && !is_stop);
        self.plan.stop_each = self.plan.stop_each || is_stop;
        Ok(())
    }
}

/// Reads what follows `out` or `err` in a line that plans how many bytes a stream takes: `ends
/// after N` (bytes), `ends after each` (number of bytes, in further runs), or `takes N at most`
/// (bytes of one write).
pub(crate) fn plan_stream(plan: &mut SinkPlan, rest: &[u8]) -> Result<(), Trouble> {
    if let Some(count) = rest.strip_prefix(b"ends after ") {
        // `each` means a further run for each number of bytes; otherwise there is one number.
        plan.each = count == b"each".as_slice();
        plan.end = if plan.each {
            None
        } else {
            Some(number(count)? as usize)
        };
        return Ok(());
    }
    let Some(count) = rest.strip_prefix(b"takes ") else {
        return Err(Trouble::BadShape);
    };
    // The most bytes that the stream takes in one write.
    let most = number_at_most(count)? as usize;
    if most == 0 {
        return Err(Trouble::BadNumber);
    }
    plan.most = Some(most);
    Ok(())
}
