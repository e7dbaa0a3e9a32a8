//! Bytes as a line shows them, and texts one after another. The rules are in `docs/commands.md`,
//! "Hints".
ghost use Rattle.std.specs.Prelude.{◌≡◌, ◌++◌, IfOk, OnOk, map};
ghost use Rattle.words_core.specs.Usage.{texts_joined};
ghost use Rattle.hint_core.specs.Lines.{dots_if_cut, is_byte_printed_as_is, printed_byte, printed_bytes, printed_text};

use std::alloc::{AllocError, Global};
use words_core::{LONGEST_SHOWN, shown_part};

/// The text that shows bytes: no more than 64 of them, and two dots if there are more.
pub(crate) fn printed(alloc: Global, bytes: &[u8]) -> Result<Vec<u8>, AllocError>
    ensures { IfOk result (λ text. text.items ≡ printed_text bytes.now) }
{
    let mut text = Vec::new(alloc);
    push_printed(&mut text, shown_part(bytes))?;
    text.extend_from_slice(dots_if_cut(bytes))?;
    Ok(text)
}

// The two dots after the bytes that are shown, if these are not all.
fn dots_if_cut(bytes: &[u8]) -> &'static [u8]
    ensures { result.now ≡ dots_if_cut bytes.now }
{
    if bytes.len() > LONGEST_SHOWN {
        b".."
    } else {
        b""
    }
}

/// Adds bytes as they are shown: visible ASCII characters and spaces as they are, and others
/// escaped.
pub fn push_printed(text: &mut Vec<u8>, bytes: &[u8]) -> Result<(), AllocError>
    ensures { OnOk result (text.new.items ≡ text.old.items ++ printed_bytes bytes.now) }
{
    for byte in bytes {
        push_byte(text, *byte)?;
    }
    Ok(())
}

// Adds a byte as it is shown: as it is, or as `\xNN`, where NN are its two hexadecimal digits.
fn push_byte(text: &mut Vec<u8>, byte: u8) -> Result<(), AllocError>
    ensures { OnOk result (text.new.items ≡ text.old.items ++ printed_byte byte) }
{
    if is_byte_printed_as_is(byte) {
        return text.extend_from_slice(&[byte]);
    }
    let mut digits = [0; 2];
    // A byte has two digits, which fit.
    let _ = hex::encode_to_slice([byte], &mut digits);
    text.extend_from_slice(b"\\x")?;
    text.extend_from_slice(&digits)
}

// Whether a byte is shown as it is: a space or a visible ASCII character, but no backslash.
fn is_byte_printed_as_is(byte: u8) -> bool
    ensures { result ≡ is_byte_printed_as_is byte }
{
    if byte == b'\\' {
        return false;
    }
    byte == b' ' || byte.is_ascii_graphic()
}

/// Adds texts, one after another.
pub(crate) fn push_texts(line: &mut Vec<u8>, texts: &[&[u8]]) -> Result<(), AllocError>
    ensures { OnOk result (line.new.items
        ≡ line.old.items ++ texts_joined (map (λ text. text.now) texts.now)) }
{
    for text in texts {
        line.extend_from_slice(*text)?;
    }
    Ok(())
}
