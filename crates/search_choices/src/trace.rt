//! The choices that lead to the preferred selection, as `solve` of `solve_core` returns them.
ghost use Rattle.std.specs.Prelude.{◌≡◌, ◌<◌, IfOk, Some, length, slice_get};

use search_needs::CandId;
use std::alloc::{AllocError, Global};
use std::marker::Model;

/// The chosen candidates, in the order chosen.
#[derive(Drop)]
pub struct Trace {
    /// The places of the chosen candidates, in the order chosen.
    ids: Vec<CandId>,
}

impl Model for Trace {
    ghost use Rattle.std.specs.Prelude.{ℕ, List};

    ghost Value = { List ℕ };

    // The value is the list of these places.
    ghost view = { λ trace. trace.ids.items };
}

impl Trace {
    /// A trace with a copy of the choices.
    pub fn of(alloc: Global, ids: &[CandId]) -> Result<Trace, AllocError>
        ensures { IfOk result (λ trace. trace ≡ ids.now) }
    {
        let ids = Vec::from_slice(alloc, ids)?;
        Ok(Trace { ids })
    }

    /// How many candidates were chosen.
    pub fn len(&self) -> usize
        ensures { result ≡ length self.now }
    {
        self.ids.len()
    }

    /// The candidate that was chosen at an index of the trace, counted from 0.
    pub fn get(&self, i: usize) -> CandId
        requires { i < length self.now }
        ensures { slice_get self.now i ≡ Some result }
    {
        self.ids[i]
    }
}
