//! The texts of `--help` and `--version`, put together from the rows of `help_rows`. The texts are
//! shown in `docs/commands.md`, "Help".
ghost use Rattle.std.specs.Prelude.{◌≡◌, ◌≤◌, ◌++◌, IfOk, OnOk, codes, map};
ghost use Rattle.words_core.specs.HelpTexts.{command_help, command_help_line, help_text, help_line_text, help_lines_text, program_help, section_text, padding_to_column, help_topic_of, synopsis_line_with_prefix, synopsis_text_with_first_prefix, version_line};
ghost use Rattle.words_core.specs.Rows.{help_row_line};

use crate::help_rows::{
    HelpRow, LISTED_COMMANDS, PROGRAM_USAGE, common_option_help, field_help, operand_help,
    option_help, purpose, synopsis,
};
use crate::options::{applet_of, applet_word};
use base_core::Text;
use command_core::{Applet, Operands};
use std::alloc::{AllocError, Global};

// The line with the version of this program, and that of the formats.
const VERSION_LINE: &[u8] = b"apk 0.4.0, apk-tools 3 formats\n";

// Where paths begin, how a package is installed, and where to read on.
const FIRST_STEPS: &[u8] = b"
Paths are below the current folder, which is the root.

To install a package, name an index of packages in etc/apk/repositories, and run
  apk add --initdb --allow-untrusted NAME

apk COMMAND --help explains a command.
Manual page: apk(8)
";

// As many spaces as a line of help can have before its explanation.
static SPACES: [u8; 26] = *b"                          ";

// The column at which the explanations of commands begin.
const COMMAND_COLUMN: usize = 10;

// The column at which the explanations of options, fields and operands begin.
const OPTION_COLUMN: usize = 26;

/// The line that `--version` prints.
pub fn version_line(alloc: Global) -> Result<Text, AllocError>
    ensures { IfOk result (λ text. text ≡ version_line) }
{
    Text::of(alloc, VERSION_LINE)
}

/// The text of `--help`, by the operands of the command `Help`: the help of the command whose word
/// is the operand, and that of the program if there is none.
pub fn help(alloc: Global, operands: &Operands) -> Result<Text, AllocError>
    ensures { IfOk result (λ text. text ≡ help_text operands.now) }
{
    let mut text = Vec::new(alloc);
    match help_topic_of(operands) {
        Some(applet) => push_command_help(&mut text, applet)?,
        None => push_program_help(&mut text)?,
    }
    Ok(Text::from_vec(text))
}

// The command whose help is asked for, by the operands of `Help`; None for the help of the program.
fn help_topic_of(operands: &Operands) -> Option<Applet>
    ensures { result ≡ help_topic_of operands.now }
{
    if operands.is_empty() {
        return None;
    }
    applet_of(operands.get(0).text.as_bytes())
}

// Adds the help of the program: how it is called, its commands, the options that each command has,
// and the first steps.
fn push_program_help(text: &mut Vec<u8>) -> Result<(), AllocError>
    ensures { OnOk result (text.new.items ≡ text.old.items ++ program_help) }
{
    text.extend_from_slice(PROGRAM_USAGE)?;
    text.extend_from_slice(b"\nCommands:\n")?;
    push_command_lines(text, &LISTED_COMMANDS)?;
    push_section(text, b"\nOptions of every command:\n", common_option_help())?;
    text.extend_from_slice(FIRST_STEPS)
}

// Adds a line for each command.
fn push_command_lines(text: &mut Vec<u8>, commands: &[Applet]) -> Result<(), AllocError>
    ensures { OnOk result (text.new.items
        ≡ text.old.items ++ help_lines_text COMMAND_COLUMN (map command_help_line commands.now)) }
{
    for i in 0..commands.len() {
        let row = HelpRow {
            subject: applet_word(commands[i]),
            text: purpose(commands[i]),
        };
        push_line(text, COMMAND_COLUMN, &row)?;
    }
    Ok(())
}

// Adds the help of a command.
fn push_command_help(text: &mut Vec<u8>, applet: Applet) -> Result<(), AllocError>
    ensures { OnOk result (text.new.items ≡ text.old.items ++ command_help applet) }
{
    push_usage(text, synopsis(applet))?;
    text.extend_from_slice(b"\n")?;
    text.extend_from_slice(purpose(applet))?;
    text.extend_from_slice(b"\n\nOptions:\n")?;
    // First the options that the command has besides the common ones.
    push_lines(text, option_help(applet))?;
    push_lines(text, common_option_help())?;
    // Only `mkpkg` has fields, and some commands have no operands.
    push_section(text, b"\nFields that -I takes:\n", field_help(applet))?;
    push_section(text, b"\nOperands:\n", operand_help(applet))?;
    text.extend_from_slice(b"\nManual page: apk(8)\n")
}

// Adds how a command is called, a line for each way. The first line has a heading before it, and
// the others as many spaces.
fn push_usage(text: &mut Vec<u8>, lines: &[&[u8]]) -> Result<(), AllocError>
    ensures { OnOk result (text.new.items ≡ text.old.items
        ++ synopsis_text_with_first_prefix (codes "usage: ") (map (λ line. line.now) lines.now)) }
{
    let mut front = b"usage: ";
    for i in 0..lines.len() {
        push_usage_line(text, front, lines[i])?;
        front = b"       ";
    }
    Ok(())
}

// Adds one way to call a command as a line, after the text `front`.
fn push_usage_line(text: &mut Vec<u8>, front: &[u8], line: &[u8]) -> Result<(), AllocError>
    ensures { OnOk result (text.new.items ≡ text.old.items
        ++ synopsis_line_with_prefix front.now line.now) }
{
    text.extend_from_slice(front)?;
    text.extend_from_slice(line)?;
    text.extend_from_slice(b"\n")
}

// Adds help lines under a heading; nothing if there are none.
fn push_section(text: &mut Vec<u8>, heading: &[u8], rows: &[HelpRow]) -> Result<(), AllocError>
    ensures { OnOk result (text.new.items ≡ text.old.items
        ++ section_text heading.now OPTION_COLUMN (map help_row_line rows.now)) }
{
    if rows.is_empty() {
        return Ok(());
    }
    text.extend_from_slice(heading)?;
    push_lines(text, rows)
}

// Adds help lines of options, fields or operands.
fn push_lines(text: &mut Vec<u8>, rows: &[HelpRow]) -> Result<(), AllocError>
    ensures { OnOk result (text.new.items ≡ text.old.items
        ++ help_lines_text OPTION_COLUMN (map help_row_line rows.now)) }
{
    for i in 0..rows.len() {
        push_line(text, OPTION_COLUMN, &rows[i])?;
    }
    Ok(())
}

// Adds a help line whose explanation begins at a column.
fn push_line(text: &mut Vec<u8>, column: usize, row: &HelpRow) -> Result<(), AllocError>
    requires { column ≤ OPTION_COLUMN }
    ensures { OnOk result (text.new.items
        ≡ text.old.items ++ help_line_text column (help_row_line row.now)) }
{
    text.extend_from_slice(b"  ")?;
    text.extend_from_slice(row.subject)?;
    text.extend_from_slice(padding_to_column(column, row.subject))?;
    text.extend_from_slice(row.text)?;
    text.extend_from_slice(b"\n")
}

// The spaces between a subject and the column of its explanation; none if the subject is longer.
fn padding_to_column(column: usize, subject: &[u8]) -> &'static [u8]
    requires { column ≤ OPTION_COLUMN }
    ensures { result.now ≡ padding_to_column column subject.now }
{
    &SPACES[..column.saturating_sub(subject.len())]
}
