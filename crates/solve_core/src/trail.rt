//! The trail of propagation: which candidates are in each satisfying selection that has the
//! choices, and which are in none, in the order in which that was found. No contract mentions the
//! trail: what a step says is proved again from its clause before it is used, so a wrong step only
//! costs time.
use crate::clauses::Clause;
use search_choices::CandId;
use std::alloc::{AllocError, Global};

/// A literal: a candidate is in the selection, or it is not.
#[derive(Clone, Copy)]
pub(crate) struct Literal {
    /// The place of the candidate.
    pub(crate) place: u32,
    /// Whether the literal says that the candidate is in the selection.
    pub(crate) is_in: bool,
}

/// What the trail says of a candidate.
#[derive(Clone, Copy)]
struct Value {
    /// Whether the candidate is in the selection.
    is_in: bool,
    /// The index of the candidate's step in the trail, counted from 0.
    step: usize,
    /// How many choices were made up to this step, the candidate included if it is a choice.
    level: usize,
}

/// A step of the trail.
#[derive(Clone, Copy)]
struct Step {
    /// The place of the candidate.
    place: u32,
    /// Whether the candidate is in the selection.
    is_in: bool,
    /// Whether the candidate is a choice, and does not follow from a clause.
    is_choice: bool,
}

/// What a clause says under the trail.
#[derive(Clone, Copy)]
pub(crate) enum Status {
    /// The clause forces nothing: one of its literals is true, or the truth of two is unknown.
    Quiet,
    /// The truth of one literal is unknown, and all others are false: so this literal is true.
    Unit(Literal),
    /// All its literals are false.
    Conflict,
}

/// The trail, with what is needed to search it and to take choices back.
#[derive(Drop)]
pub(crate) struct Trail {
    /// For each place in the list of candidates, what the trail says of this candidate; None if
    /// nothing. The list ends at the greatest place that was in the trail.
    values: Vec<Option<Value>>,
    /// The steps of the trail, in order.
    steps: Vec<Step>,
    /// For each choice, how many steps were before it.
    levels: Vec<usize>,
    /// How many steps, from the first on, were propagated.
    next: usize,
}

impl Trail {
    /// An empty trail.
    pub(crate) fn new(alloc: Global) -> Trail {
        Trail {
            values: Vec::new(alloc),
            steps: Vec::new(alloc),
            levels: Vec::new(alloc),
            next: 0,
        }
    }

    // What the trail says of the candidate at a place, if it has a step.
    fn value(&self, place: u32) -> Option<Value> {
        *self.values.get(place as usize)?
    }

    /// How many choices were made.
    pub(crate) fn level(&self) -> usize {
        self.levels.len()
    }

    /// Whether a literal is true by the trail; None if its truth is unknown.
    pub(crate) fn truth(&self, literal: Literal) -> Option<bool> {
        let value = self.value(literal.place)?;
        Some(value.is_in == literal.is_in)
    }

    /// The index of the step that rules a candidate out; None if the trail does not rule it out.
    pub(crate) fn step_out(&self, id: CandId) -> Option<usize> {
        let value = self.value(id.place)?;
        if value.is_in { None } else { Some(value.step) }
    }

    /// The index of the step of a literal's candidate; the number of all steps if the candidate has
    /// no step.
    pub(crate) fn step_of(&self, literal: Literal) -> usize {
        match self.value(literal.place) {
            Some(value) => value.step,
            None => self.steps.len(),
        }
    }

    /// Appends the step that makes a literal true. `is_choice` says whether the step is a choice of
    /// the search.
    pub(crate) fn push(&mut self, literal: Literal, is_choice: bool) -> Result<(), AllocError> {
        let Literal { place, is_in } = literal;
        let value = Value {
            is_in,
            step: self.steps.len(),
            level: self.levels.len(),
        };
        note(&mut self.values, place as usize, value)?;
        self.steps.push(Step {
            place,
            is_in,
            is_choice,
        })?;
        Ok(())
    }

    /// Begins the steps of a further choice (its level): stores how many steps were before it.
    pub(crate) fn begin_level(&mut self) -> Result<(), AllocError> {
        let steps = self.steps.len();
        self.levels.push(steps)?;
        Ok(())
    }

    /// The literal that the next step to be propagated made false, if there is such a step. The
    /// step counts as propagated then.
    pub(crate) fn next_falsified(&mut self) -> Option<Literal> {
        let step = *self.steps.get(self.next)?;
        self.next += 1;
        Some(Literal {
            place: step.place,
            is_in: !step.is_in,
        })
    }

    /// Takes choices back, so that `level` of them remain, with all their steps. Returns how many
    /// steps are left; None if there are no more choices than that.
    pub(crate) fn take_back(&mut self, level: usize) -> Option<usize> {
        let left = *self.levels.get(level)?;
        self.levels.truncate(level);
        for i in left..self.steps.len() {
            self.forget(i);
        }
        self.steps.truncate(left);
        // Steps that were taken back do not count as propagated.
        if self.next > left {
            self.next = left;
        }
        Some(left)
    }

    // Forgets what is known of the candidate of a step.
    fn forget(&mut self, step: usize) {
        let Some(step) = self.steps.get(step) else {
            return;
        };
        if let Some(value) = self.values.get_mut(step.place as usize) {
            *value = None;
        }
    }

    /// What a clause says under the trail.
    pub(crate) fn status(&self, clause: &Clause) -> Status {
        let members = self.status_of(clause.members(), false);
        let options = self.status_of(clause.options(), true);
        // If all literals of the members are false, the options decide, and the other way round.
        match (members, options) {
            (Status::Conflict, options) => options,
            (members, Status::Conflict) => members,
            _ => Status::Quiet,
        }
    }

    // What a clause with these literals alone would say. `is_in` says whether its literals are that
    // the candidates are in the selection, or that they are not.
    fn status_of(&self, ids: &[CandId], is_in: bool) -> Status {
        let mut status = Status::Conflict;
        for id in ids {
            let literal = Literal {
                place: id.place,
                is_in,
            };
            // A literal of unknown truth is the only one so far, and makes the status `Unit`; a
            // true literal, or a second unknown one, makes it `Quiet`.
            match (self.truth(literal), &status) {
                (Some(false), _) => {}
                (None, Status::Conflict) => status = Status::Unit(literal),
                _ => return Status::Quiet,
            }
        }
        status
    }

    /// The index of the step of that member which was forced last; None if no member was forced.
    pub(crate) fn latest_forced(&self, members: &[CandId]) -> Option<usize> {
        let mut latest = None;
        for id in members {
            latest = later(latest, self.forced_step(id.place));
        }
        latest
    }

    /// The candidate of the step at an index.
    pub(crate) fn candidate_at(&self, step: usize) -> Option<CandId> {
        let step = self.steps.get(step)?;
        Some(CandId { place: step.place })
    }

    // The step at which the candidate at a place was forced; None if it is a choice, ruled out or
    // without a step.
    fn forced_step(&self, place: u32) -> Option<usize> {
        let value = self.value(place)?;
        let step = self.steps.get(value.step)?;
        if value.is_in && !step.is_choice {
            Some(value.step)
        } else {
            None
        }
    }

    /// Whether at most one of the members has the greatest level that a member has. The level is
    /// the number of choices made up to the step of the member; it is 0 if the member has no step.
    pub(crate) fn is_last_alone(&self, members: &[CandId]) -> bool {
        let mut last = 0;
        let mut is_alone = true;
        for id in members {
            let level = match self.value(id.place) {
                Some(value) => value.level,
                None => 0,
            };
            if level > last {
                last = level;
                is_alone = true;
            } else if level == last {
                is_alone = false;
            }
        }
        is_alone
    }
}

// The later of two steps, each of which may be absent.
fn later(one: Option<usize>, other: Option<usize>) -> Option<usize> {
    match (one, other) {
        (Some(a), Some(b)) => Some(if a < b { b } else { a }),
        (None, other) => other,
        (one, None) => one,
    }
}

// Stores what the trail says of the candidate at a place. The list grows as needed.
fn note(values: &mut Vec<Option<Value>>, place: usize, value: Value) -> Result<(), AllocError> {
    while values.len() <= place {
        values.push(None)?;
    }
    values[place] = Some(value);
    Ok(())
}
