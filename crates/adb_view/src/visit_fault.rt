//! The fault of a visit, as the functions of `walk` return it. The faults, and the order in which
//! they are tested, are defined in `docs/formats.md`, "The shape".

ghost use Rattle.std.specs.Prelude.{◌≡◌, true};
ghost use Rattle.adb_view.specs.VisitFault.{cause_of_fault, is_reader_fault};

use base_core::Cause;

/// Why a visit is faulty. A `Cause` has 150 bytes, which would be moved at each visit. So the inner
/// functions of the walk return this smaller type. `shape` and `walk_fields` make a `Cause` of it.
#[derive(Clone, Copy)]
pub(crate) enum VisitFault {
    /// The visit with the number `count`, counted from 1, exceeds the limit of visits.
    TooLarge { count: u32 },
    /// The kind of the word is not the one that its shape demands.
    WrongKind { word: u32 },
    /// The bytes to which the word points are not within the payload.
    Outside { word: u32 },
}

impl VisitFault {
    /// The fault of a visit whose word a reader refused with this cause.
    pub(crate) fn of_reader(cause: Cause) -> VisitFault
        // The cause is one that a reader of a word can report.
        requires { is_reader_fault cause ≡ true }
        ensures { cause_of_fault result ≡ cause }
    {
        match cause {
            Cause::WrongKind { word } => VisitFault::WrongKind { word },
            Cause::Outside { word } => VisitFault::Outside { word },
            // A reader returns no other cause, by the precondition.
            _ => unreachable!(),
        }
    }

    /// The cause that is reported of the fault.
    pub(crate) fn cause(self) -> Cause
        ensures { result ≡ cause_of_fault self }
    {
        match self {
            VisitFault::TooLarge { count } => Cause::TooLarge { count },
            VisitFault::WrongKind { word } => Cause::WrongKind { word },
            VisitFault::Outside { word } => Cause::Outside { word },
        }
    }
}
