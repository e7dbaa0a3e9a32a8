//! Bytes that are put together, as for a file that a test makes.
use std::alloc::{AllocError, Global};

/// Bytes that are put together. If memory runs out, they take no more, and `finish` fails. So
/// adding to them returns nothing.
#[derive(Drop)]
pub struct Bytes {
    /// The bytes so far.
    bytes: Vec<u8>,
    /// Whether there was memory for all that was added.
    outcome: Result<(), AllocError>,
}

impl Bytes {
    /// No bytes yet.
    pub fn new(alloc: Global) -> Bytes {
        Bytes {
            bytes: Vec::new(alloc),
            outcome: Ok(()),
        }
    }

    /// All bytes that were added.
    ///
    /// # Errors
    ///
    /// `AllocError` if memory ran out while they were added.
    pub fn finish(self) -> Result<Vec<u8>, AllocError> {
        self.outcome?;
        Ok(self.bytes)
    }

    /// The bytes so far.
    pub fn as_slice(&self) -> &[u8] {
        self.bytes.as_slice()
    }

    /// Adds bytes.
    pub fn push(&mut self, bytes: &[u8]) {
        if self.outcome.is_ok() {
            self.outcome = self.bytes.extend_from_slice(bytes);
        }
    }

    /// Adds bytes that were made, if there was memory for them.
    pub fn push_made(&mut self, bytes: Result<Vec<u8>, AllocError>) {
        match bytes {
            Ok(bytes) => self.push(bytes.as_slice()),
            Err(fault) => self.outcome = Err(fault),
        }
    }

    /// Adds a text that was formatted, if there was memory for it.
    pub fn push_text(&mut self, text: Result<String, AllocError>) {
        match text {
            Ok(text) => self.push(text.as_bytes()),
            Err(fault) => self.outcome = Err(fault),
        }
    }
}
