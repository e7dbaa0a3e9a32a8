//! An output for a report. It stores the bytes of the report, or only counts them, so that memory
//! for a report is asked for once and for just its bytes. Many packages may share a text, so a
//! report may be much longer than what was read. No document has a rule for this.
ghost use Rattle.query_core.specs.Appends.{Appends};
ghost use Rattle.std.specs.Prelude.{◌≡◌, OnOk};

use std::alloc::AllocError;

/// An output to which the bytes of a report are written, part by part.
pub(crate) trait ReportOut {
    ghost use Rattle.std.specs.Prelude.{ℕ, List};

    /// Whether the bytes that were written so far may be these.
    ghost holds: { Self → List ℕ → Type 0 };

    /// Writes bytes after those that were written before.
    fn put(&mut self, bytes: &[u8]) -> Result<(), AllocError>
        ensures { OnOk result (Appends holds self.old self.new bytes.now) };
}

/// The bytes themselves, in memory that grows as needed, or was reserved for all of them.
impl ReportOut for Vec<u8> {
    ghost use Rattle.std.specs.Prelude.{◌≡◌};

    // The list has just the bytes that were written.
    ghost holds = { λ out bytes. out.items ≡ bytes };

    // Writes bytes; the memory grows if it has no room for them.
    fn put(&mut self, bytes: &[u8]) -> Result<(), AllocError> {
        self.extend_from_slice(bytes)
    }
}

/// An output that only counts the bytes which are written to it.
#[derive(Drop)]
pub(crate) struct ReportLength {
    /// The number of the bytes that were written so far.
    pub(crate) bytes: usize,
}

impl ReportOut for ReportLength {
    ghost use Rattle.std.specs.Prelude.{◌≡◌, length};

    // The number is that of the bytes that were written.
    ghost holds = { λ out bytes. out.bytes ≡ length bytes };

    // Counts bytes. If their number is too great for a `usize`, the call fails as if out of memory.
    fn put(&mut self, bytes: &[u8]) -> Result<(), AllocError> {
        self.bytes = self.bytes.checked_add(bytes.len()).ok_or(AllocError)?;
        Ok(())
    }
}
