//! A row of the tests of the solver: the packages to choose from, world, and the names that a
//! command upgrades. A row borrows its text. The README of this crate describes the lines.
use crate::package::index_payload;
use std::alloc::{AllocError, Global};

/// A repository of a row.
#[derive(Drop)]
pub(crate) struct Repository<'t> {
    /// The number of the repository, as the row states it, or else its position among the
    /// repositories of the row, counted from 1.
    pub(crate) number: u64,
    /// The tag of the repository, if it has one.
    pub(crate) tag: Option<&'t [u8]>,
    /// The payload of the repository's index.
    pub(crate) payload: Vec<u8>,
}

/// A row: what its lines say, from the line that begins the row up to the next such line.
pub(crate) struct Row<'t> {
    /// The name of the row.
    pub(crate) name: &'t [u8],
    /// The repositories, in their order.
    pub(crate) repositories: Vec<Repository<'t>>,
    /// The payload of an index of the installed packages, if there are any.
    pub(crate) installed: Option<Vec<u8>>,
    /// The entries of world, as text.
    pub(crate) world: &'t [u8],
    /// The names that the command upgrades, as text, or `all`.
    pub(crate) upgraded: &'t [u8],
    /// How often the result of the row is computed.
    pub(crate) times: u64,
}

/// Drops the parts in one call, so that a function that gives up has one drop and not many.
impl Drop for Row<'_> {
    fn drop(self) {
        let Row {
            name: _,
            repositories: _,
            installed: _,
            world: _,
            upgraded: _,
            times: _,
        } = self;
    }
}

impl<'t> Row<'t> {
    /// A row with this name, without packages. Its result is computed once.
    pub(crate) fn new(alloc: Global, name: &'t [u8]) -> Row<'t> {
        Row {
            name,
            repositories: Vec::new(alloc),
            installed: None,
            world: b"",
            upgraded: b"",
            times: 1,
        }
    }

    /// Adds a repository with the packages of a text. The text may begin with `@TAG`, the tag of
    /// the repository, or with `/N`, its number.
    pub(crate) fn add_repository(
        &mut self,
        alloc: Global,
        text: &'t [u8],
    ) -> Result<(), AllocError> {
        // The number of the repository unless the text states one, and the first word of the text.
        let next = (self.repositories.len() as u64).saturating_add(1);
        let (word, rest) = split_word(text);
        let (number, tag, packages) = match word {
            [b'@', tag @ ..] => (next, Some(tag), rest),
            [b'/', digits @ ..] => (number_of(digits), None, rest),
            _ => (next, None, text),
        };
        let payload = index_payload(alloc, packages)?;
        self.repositories.push(Repository {
            number,
            tag,
            payload,
        })?;
        Ok(())
    }

    /// Sets the installed packages of the row, given as text.
    pub(crate) fn set_installed(
        &mut self,
        alloc: Global,
        packages: &[u8],
    ) -> Result<(), AllocError> {
        self.installed = Some(index_payload(alloc, packages)?);
        Ok(())
    }
}

/// The first word of a line, and the text after the blank that ends it.
pub(crate) fn split_word<'t>(line: &'t [u8]) -> (&'t [u8], &'t [u8]) {
    for i in 0..line.len() {
        if line[i] == b' ' {
            return (&line[..i], &line[i + 1..]);
        }
    }
    (line, b"")
}

/// The number that the decimal digits of a text form. Bytes that are no digits are skipped, and a
/// number above 2^64 - 1 counts as 2^64 - 1.
pub(crate) fn number_of(text: &[u8]) -> u64 {
    let mut number = 0u64;
    for byte in text {
        if byte.is_ascii_digit() {
            // The low four bits of an ASCII digit are its value.
            let digit = u64::from(*byte % 16);
            number = number.saturating_mul(10).saturating_add(digit);
        }
    }
    number
}
