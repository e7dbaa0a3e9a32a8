//! The error type of a recovery, and the conversions to it from the errors of a failed read and of
//! a failed call on the tree. The rule is in `docs/crash-safety.md`, "Recovery", the row of a bad
//! intent.
ghost use Rattle.std.specs.Prelude.{◌≡◌};
ghost use Rattle.journal_core.specs.declared.fault.RecoverFault.TheVariants.{Disk as DiskFault, Memory as MemoryFault};

use base_core::{Cause, Disk, TreeFault};
use journal_intent::ReadFault;
use std::alloc::AllocError;

/// Why a root is not recovered.
#[derive(Clone, Copy, Drop)]
pub enum RecoverFault {
    /// The journal is corrupt: the file of the intent is no intent container. The cause is the
    /// first test that failed. Nothing has changed.
    IntentBad(Cause),
    /// An I/O error of the tree.
    Disk,
    /// Out of memory.
    Memory,
}

impl From<Disk> for RecoverFault {
    // The result of the conversion: the I/O error of a recovery.
    ghost from_gives = { λ _ fault. fault ≡ DiskFault };

    /// A failed call of the tree as the reason why a root is not recovered.
    fn from(_: Disk) -> RecoverFault {
        RecoverFault::Disk
    }
}

impl From<AllocError> for RecoverFault {
    // The result of the conversion: a recovery is out of memory.
    ghost from_gives = { λ _ fault. fault ≡ MemoryFault };

    /// Out of memory as the reason why a root is not recovered.
    fn from(_: AllocError) -> RecoverFault {
        RecoverFault::Memory
    }
}

impl From<ReadFault> for RecoverFault {
    ghost use Rattle.journal_core.specs.Recovering.{recover_fault_of};

    // The result of the conversion, given the fault of the read.
    ghost from_gives = { λ given fault. fault ≡ recover_fault_of given };

    /// A failed read of the intent as the reason why a root is not recovered: the intent is
    /// corrupt, or the program is out of memory.
    fn from(fault: ReadFault) -> RecoverFault {
        match fault {
            ReadFault::Bad(cause) => RecoverFault::IntentBad(cause),
            ReadFault::Memory => RecoverFault::Memory,
        }
    }
}

impl From<TreeFault> for RecoverFault {
    ghost use Rattle.journal_core.specs.Recovering.{recover_fault_of_tree};

    // The result of the conversion, given the fault of the tree.
    ghost from_gives = { λ given fault. fault ≡ recover_fault_of_tree given };

    /// A failed listing or read as the reason why a root is not recovered: an I/O error, or out of
    /// memory.
    fn from(fault: TreeFault) -> RecoverFault {
        match fault {
            TreeFault::Disk => RecoverFault::Disk,
            TreeFault::Memory => RecoverFault::Memory,
        }
    }
}
