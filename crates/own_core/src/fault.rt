//! `PlanFault`: why a change has no plan of files.
//! The rules are in `docs/commands.md`, "What a change does with files", the tests 1 to 3 in
//! their order; how each is printed, in "Error lines" there.

ghost use Rattle.own_core.specs.declared.fault.PlanFault.TheVariants as Faults;

use base_core::{Disk, Name, Text, TreeFault};
use std::alloc::AllocError;

/// Why a change has no plan of files: a failed test, an I/O error, or a lack of memory.
#[derive(Drop)]
pub enum PlanFault {
    /// An added package lists a path that no package may have. `path` is the first one in byte
    /// order.
    Reserved {
        path: Name,
    },
    /// After the change `path` would be a folder of `other`, and at least one of the two names
    /// counts as written. They are the first such pair in byte order.
    PathClash {
        path: Name,
        other: Name,
    },
    /// No package owns `path`, which is the first such path in byte order. `first` is the name of
    /// the first package that lists it. `second` is that of the first other one that `first` does
    /// not beat.
    Owned {
        path: Name,
        first: Text,
        second: Text,
    },
    /// An I/O error of the tree.
    Disk,
    /// Out of memory.
    Memory,
}

impl From<AllocError> for PlanFault {
    ghost use Rattle.std.specs.Prelude.{◌≡◌};
    ghost use Rattle.own_core.specs.declared.fault.PlanFault.TheVariants.{Memory};

    // The result of the conversion: out of memory.
    ghost from_gives = { λ _ fault. fault ≡ Memory };

    // A lack of memory as the reason why a change has no plan.
    fn from(_: AllocError) -> PlanFault {
        PlanFault::Memory
    }
}

impl From<TreeFault> for PlanFault {
    ghost use Rattle.own_core.specs.FaultsSeen.{fault_of_tree};
    ghost use Rattle.std.specs.Prelude.{◌≡◌};

    // The result of the conversion, given the fault of the tree.
    ghost from_gives = { λ failed fault. fault ≡ fault_of_tree failed };

    // A failed read of the tree as the reason why a change has no plan.
    fn from(failed: TreeFault) -> PlanFault {
        match failed {
            TreeFault::Disk => PlanFault::Disk,
            TreeFault::Memory => PlanFault::Memory,
        }
    }
}
