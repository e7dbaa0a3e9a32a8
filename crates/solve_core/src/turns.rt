//! The turns of a search: the choices that were taken, each with the frame of its need, and where
//! options are ruled out. The rule is in `docs/selection.md`, "How the search works".
ghost use Rattle.std.specs.Prelude.{◌≡◌, ◌==◌, ◌∷◌, ◌++◌, [], not, filter, IfOk, OnOk, IfSome, Some, slice_get};

use crate::clauses::without;
use search_choices::{CandId, CandidateSet, Frame, RuledOutOption};
use std::alloc::{AllocError, Global};
use std::marker::Model;

/// A decision of the search: the frame of a need that was met, and the choice that was taken from
/// it.
#[derive(Drop)]
pub(crate) struct Turn {
    /// The frame of the need.
    frame: Frame,
    /// The choice that was taken from the frame, the latest of its options that were taken.
    choice: CandId,
}

impl Model for Turn {
    ghost use Rattle.std.specs.Prelude.{ℕ, List};

    // The value of a turn: the frame, and the place of the choice in the list of candidates.
    ghost Value = { (List (ℕ × List ℕ) × List ℕ × List ℕ) × ℕ };

    // The frame's value is its ruled-out options with the other members of their reasons, the
    // options left, and the choices that raised the need. The second part is the choice.
    ghost view = { λ turn. (turn.frame, turn.choice) };
}

impl Turn {
    /// The turn at which a choice was taken from a frame.
    pub(crate) fn new(frame: Frame, choice: CandId) -> Turn
        ensures { result ≡ (frame, choice) }
    {
        Turn { frame, choice }
    }

    /// The choice that was taken at this turn.
    pub(crate) fn choice(&self) -> CandId
        ensures { result ≡ self.now.1 }
    {
        self.choice
    }

    /// The option that was ruled out at an index of this turn's frame, counted from 0, if there is
    /// one.
    pub(crate) fn ruled_out_at(&self, i: usize) -> Option<&RuledOutOption>
        ensures { IfSome result (λ ruled_out. slice_get self.now.0.0 i ≡ Some ruled_out.now) }
    {
        self.frame.ruled_out_at(i)
    }
}

/// Where an option may be ruled out: a turn, and an index among the ruled-out options of the turn's
/// frame. A hint may be stale, so the option there is compared with the expected one before use.
#[derive(Clone, Copy)]
pub(crate) struct Hint {
    /// The index of the turn, counted from 0. The index is the number of turns while the frame of
    /// this turn is still in use, and not yet stored.
    pub(crate) turn: usize,
    /// The index of the option among those that are ruled out in the frame of this turn, counted
    /// from 0.
    pub(crate) place: usize,
}

/// The turn with a number, counted from 0, if there is one.
pub(crate) fn turn_at(turns: &[Turn], i: usize) -> Option<&Turn>
    ensures { IfSome result (λ turn. slice_get turns.now i ≡ Some turn.now) }
{
    if i < turns.len() {
        Some(&turns[i])
    } else {
        None
    }
}

/// The frame of a turn that was taken back. In it, the other members of the reason rule the choice
/// of the turn out. `index` is the index that the turn had.
pub(crate) fn reopened_frame(
    alloc: Global,
    hints: &mut Vec<Option<Hint>>,
    index: usize,
    turn: Turn,
    reason: &CandidateSet,
) -> Result<Frame, AllocError>
    ensures { IfOk result (λ frame. frame ≡ (
      turn.0.0 ++
          (turn.1, filter (λ id. not (id == turn.1)) reason.now) ∷ [],
      turn.0.1,
      turn.0.2,
    )) }
{
    let Turn { mut frame, choice } = turn;
    let others = without(alloc, reason.as_slice(), choice)?;
    rule_out(hints, index, &mut frame, choice, others)?;
    Ok(frame)
}

/// Rules an option of a frame out. The frame stores why: `others` are the other members of the
/// reason. The hint stores where: `turn` is the index of the frame's turn.
pub(crate) fn rule_out(
    hints: &mut Vec<Option<Hint>>,
    turn: usize,
    frame: &mut Frame,
    option: CandId,
    others: Vec<CandId>,
) -> Result<(), AllocError>
    ensures { OnOk result (frame.new ≡ (
      frame.old.0 ++
          (option, others.items) ∷ [],
      frame.old.1,
      frame.old.2,
    )) }
{
    let hint = Hint {
        turn,
        place: frame.ruled_out().len(),
    };
    remember(hints, option, hint)?;
    frame.rule_out(option, others)
}

// Remembers where an option is ruled out (the turn, and the index in its frame), in place of an
// earlier entry. No contract mentions hints: a wrong one only costs time.
fn remember(hints: &mut Vec<Option<Hint>>, id: CandId, hint: Hint) -> Result<(), AllocError> {
    let place = id.place as usize;
    while hints.len() <= place {
        hints.push(None)?;
    }
    hints[place] = Some(hint);
    Ok(())
}
