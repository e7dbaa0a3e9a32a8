//! The frame of one need in the search: the options that are ruled out, each with its reason, and
//! those that are left. Reasons, and when an option is ruled out, are defined in
//! `docs/selection.md`, "How the search works"; the words *frame* and *turn* in `docs/names.md`,
//! "Choosing packages".
ghost use Rattle.std.specs.Prelude.{◌≡◌, [], ◌∷◌, ◌++◌, map, length, ◌<◌, ◌^◌, MatchOption, OnOk, IfSome, Some, slice_get};

use search_tables::CandId;
use std::alloc::{AllocError, Global};
use std::marker::Model;

/// An option that is ruled out, and why: no satisfying selection contains it and all of the
/// candidates `others`.
#[derive(Drop)]
pub struct RuledOutOption {
    /// The option.
    option: CandId,
    /// The other members of the reason: no satisfying selection has the option and all of these.
    others: Vec<CandId>,
}

impl Model for RuledOutOption {
    ghost use Rattle.std.specs.Prelude.{ℕ, List};

    ghost Value = { ℕ × List ℕ };

    // In this order: the option, and the other members of its reason.
    ghost view = { λ ruled_out. (ruled_out.option, ruled_out.others.items) };
}

impl RuledOutOption {
    /// The option that is ruled out.
    pub fn option(&self) -> CandId
        ensures { result ≡ self.now.0 }
    {
        self.option
    }

    /// The other members of the reason against the option.
    pub fn others(&self) -> &[CandId]
        ensures { result.now ≡ self.now.1 }
    {
        self.others.as_slice()
    }
}

/// A need to be met: its options, of which the first ones are ruled out or taken, each ruled-out
/// option with its reason; and the choices that raised the need.
#[derive(Drop)]
pub struct Frame {
    /// The options that are ruled out, in the order in which they were ruled out, each with the
    /// other members of its reason.
    ruled_out: Vec<RuledOutOption>,
    /// All options of the need, best first.
    options: Vec<CandId>,
    /// The index, counted from 0, of the best option that is left; the options before it were ruled
    /// out, and the last of these may be taken.
    next: usize,
    /// The choices that raised the need: the choice that has the dependency (none for an entry of
    /// world), or the choices that meet the entries of the install-if.
    by: Vec<CandId>,
}

impl Model for Frame {
    ghost use Rattle.std.specs.Prelude.{ℕ, List, drop, length, ◌≤◌};

    ghost Value = { List (ℕ × List ℕ) × List ℕ × List ℕ };

    // The value is a triple. `.0` has the ruled-out options, each with the other members of its
    // reason. `.1` has the options that are left, and `.2` the choices that raised the need.
    ghost view = { λ f. (f.ruled_out.items, drop f.next f.options.items, f.by.items) };
}

impl Frame {
    /// A frame in which no option is ruled out, so that all options are left. `by` are the choices
    /// that raised the need.
    pub fn new(alloc: Global, options: Vec<CandId>, by: Vec<CandId>) -> Frame
        ensures value { result ≡ ([], options.items, by.items) }
        // A list has fewer than 2^64 entries.
        ensures few { length result.1 < 2 ^ 64 }
    {
        Frame {
            ruled_out: Vec::new(alloc),
            options,
            next: 0,
            by,
        }
    }

    /// Takes the best option that is left, if there is one.
    pub fn take_next(&mut self) -> Option<CandId>
        ensures ruled_out { self.new.0 ≡ self.old.0 }
        // None: no option was left. Otherwise the first of those left is taken from them.
        ensures left { MatchOption result ((self.old.1 ≡ []) × (self.new.1
            ≡ [])) (λ option. self.old.1 ≡ option ∷ self.new.1) }
        ensures by { self.new.2 ≡ self.old.2 }
    {
        if self.next >= self.options.len() {
            return None;
        }
        let id = self.options[self.next];
        self.next += 1;
        Some(id)
    }

    /// Rules out the option that was taken last. `others` are the other members of the reason
    /// against this option.
    pub fn rule_out(&mut self, option: CandId, others: Vec<CandId>) -> Result<(), AllocError>
        // The option is appended to those that are ruled out; the rest of the frame is unchanged.
        ensures { OnOk result (self.new ≡ (
          self.old.0 ++
              (option, others.items) ∷ [],
          self.old.1,
          self.old.2,
        )) }
    {
        self.ruled_out.push(RuledOutOption { option, others })?;
        Ok(())
    }

    /// The choices that raised the need.
    pub fn by(&self) -> &[CandId]
        ensures { result.now ≡ self.now.2 }
    {
        self.by.as_slice()
    }

    /// The options that are ruled out, each with the other members of its reason.
    pub fn ruled_out(&self) -> &[RuledOutOption]
        ensures { result.now ≡ self.now.0 }
    {
        self.ruled_out.as_slice()
    }

    /// The option that was ruled out at an index, counted from 0, if there is one.
    pub fn ruled_out_at(&self, i: usize) -> Option<&RuledOutOption>
        ensures { IfSome result (λ ruled_out. slice_get self.now.0 i ≡ Some ruled_out.now) }
    {
        if i < self.ruled_out.len() {
            Some(&self.ruled_out[i])
        } else {
            None
        }
    }
}
