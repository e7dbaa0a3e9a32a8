//! The contents of the file that is written for a link: a mark, and the link's text. The rules are
//! in `docs/commands.md`, "What a change does with files", and of an entry's target in
//! `docs/formats.md`, "The texts", field 406.

ghost use Rattle.std.specs.Prelude.{◌≡◌};
ghost use Rattle.file_guard.specs.AsListed.{link_text_of_target};

/// The bytes before a link's text in the file that is written for the link.
pub const LINK_MARK: &[u8] = b"!<symlink>";

/// Where the text of a link begins in its target, counted from 0: after `00 a0`.
const LINK_TEXT_AT: usize = 2;

/// The text of a link whose entry has this target: the bytes after the first two. Empty if the
/// target is too short.
pub fn link_text_of_target(target: &[u8]) -> &[u8]
    ensures { result.now ≡ link_text_of_target target.now }
{
    match target.get(LINK_TEXT_AT..) {
        Some(text) => text,
        None => &[],
    }
}
