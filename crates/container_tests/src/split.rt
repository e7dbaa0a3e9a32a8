//! Splits the words by which rows describe packages: paths, and entries of the field `replaces`.

/// The text before the first byte `mark`, and the text after it. Without such a byte, the whole
/// text and an empty one.
pub(crate) fn split_at_first(text: &[u8], mark: u8) -> (&[u8], &[u8]) {
    for i in 0..text.len() {
        if text[i] == mark {
            return (&text[..i], &text[i + 1..]);
        }
    }
    (text, b"")
}

/// The folder of a path, before its last slash, and the name after it. Without a slash the folder
/// is empty.
pub(crate) fn folder_and_name(path: &[u8]) -> (&[u8], &[u8]) {
    for i in (0..path.len()).rev() {
        if path[i] == b'/' {
            return (&path[..i], &path[i + 1..]);
        }
    }
    (b"", path)
}
