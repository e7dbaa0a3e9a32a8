//! Why nothing was made. The rules are in `docs/commands.md`, "`mkpkg`" and "`mkndx PACKAGE..`",
//! the tables of refusals.
use adb_values::WriteFault;
use base_core::{Cause, Disk, TreeFault};
use std::alloc::AllocError;

/// Why nothing was made. Places count the arguments of the command line from 1.
#[derive(Clone, Copy, Debug, PartialEq, Eq, Drop)]
pub enum MakeFault {
    /// There is no file under the name that the argument at this place gives or lists.
    FileMissing { place: u32 },
    /// The file under the name that the argument at this place gives is no sound package. The cause
    /// is the first test that failed.
    FileBad { place: u32, cause: Cause },
    /// The value of `-I` at this place is not allowed. At the place after the last argument: the
    /// name or the version of the package is missing.
    InfoBad { place: u32 },
    /// The payload would exceed a limit of the writer. `bytes` and `values` count the bytes and the
    /// values of the payload after the first value that exceeds it.
    TooLarge { bytes: u64, values: u64 },
    /// An I/O error of the tree.
    Disk,
    /// Out of memory.
    Memory,
}

impl From<AllocError> for MakeFault {
    ghost use Rattle.std.specs.Prelude.{◌≡◌};
    ghost use Rattle.make_info.specs.declared.fault.MakeFault.TheVariants.{Memory};

    // What `from` returns.
    ghost from_gives = { λ _ fault. fault ≡ Memory };

    /// A lack of memory becomes `Memory`.
    fn from(_: AllocError) -> MakeFault {
        MakeFault::Memory
    }
}

impl From<Disk> for MakeFault {
    ghost use Rattle.std.specs.Prelude.{◌≡◌};
    ghost use Rattle.make_info.specs.declared.fault.MakeFault.TheVariants.{Disk as DiskFault};

    // What `from` returns.
    ghost from_gives = { λ _ fault. fault ≡ DiskFault };

    /// A failed call of the tree becomes `Disk`.
    fn from(_: Disk) -> MakeFault {
        MakeFault::Disk
    }
}

impl From<TreeFault> for MakeFault {
    ghost use Rattle.make_info.specs.Faults.{IsMakeFaultOf};

    // What `from` returns.
    ghost from_gives = { λ tree fault. IsMakeFaultOf tree fault };

    /// A failed listing or read of the tree becomes `Disk` or `Memory`.
    fn from(fault: TreeFault) -> MakeFault {
        match fault {
            TreeFault::Disk => MakeFault::Disk,
            TreeFault::Memory => MakeFault::Memory,
        }
    }
}

impl From<WriteFault> for MakeFault {
    ghost use Rattle.make_info.specs.Faults.{IsMakeFaultOfWriter};

    // What `from` returns.
    ghost from_gives = { λ write fault. IsMakeFaultOfWriter write fault };

    /// A failed write of a payload becomes `TooLarge` or `Memory`.
    fn from(fault: WriteFault) -> MakeFault {
        match fault {
            WriteFault::TooLarge { bytes, values } => MakeFault::TooLarge { bytes, values },
            WriteFault::Memory => MakeFault::Memory,
        }
    }
}
