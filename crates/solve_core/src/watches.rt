//! Which clauses are tested when a literal becomes false: the clauses that watch it. Each clause
//! watches two of its literals, as in a SAT solver, since it can force a literal only once one of
//! these two is false. No contract mentions watches: a clause that is found by a watch is tested
//! before it forces a literal, so a wrong watch only costs time.
ghost use Rattle.std.specs.Prelude.{◌<◌, OnOk, vec_len};

use crate::clauses::Clause;
use crate::trail::{Literal, Trail};
use search_choices::CandId;
use std::alloc::{AllocError, Global};

/// The two watched literals of a clause; one literal twice if the clause has no other.
#[derive(Clone, Copy)]
struct Watch {
    /// One watched literal.
    one: Literal,
    /// The other watched literal; `one` again if the clause has no other.
    other: Literal,
}

impl Watch {
    /// The watched literal beside this one; None if this literal is not watched.
    fn beside(&self, literal: Literal) -> Option<Literal> {
        if is_same(self.one, literal) {
            return Some(self.other);
        }
        if is_same(self.other, literal) {
            return Some(self.one);
        }
        None
    }
}

/// The indexes of the clauses that watch the literals of a candidate, and of some that did before.
#[derive(Drop)]
struct Watching {
    /// The clauses that watch the literal that the candidate is in the selection.
    is_in: Vec<usize>,
    /// The clauses that watch the literal that the candidate is not in the selection.
    is_out: Vec<usize>,
}

impl Watching {
    // The clauses that are listed under one of the two literals of the candidate: that the
    // candidate is in the selection (`is_in`), or that it is not.
    fn of(&self, is_in: bool) -> &Vec<usize> {
        if is_in { &self.is_in } else { &self.is_out }
    }

    // The same list as that of `of`, so that the caller can change it.
    fn of_mut(&mut self, is_in: bool) -> &mut Vec<usize> {
        if is_in {
            &mut self.is_in
        } else {
            &mut self.is_out
        }
    }
}

/// The watches of all clauses.
#[derive(Drop)]
pub(crate) struct Watches {
    /// The allocator.
    alloc: Global,
    /// The watched literals of each clause, by its index; None if the clause is empty.
    watches: Vec<Option<Watch>>,
    /// For each candidate, by its place in the list of candidates: the clauses that watch its
    /// literals. The list ends at the greatest place that was watched.
    places: Vec<Watching>,
}

impl Watches {
    /// No watches.
    pub(crate) fn new(alloc: Global) -> Watches {
        Watches {
            alloc,
            watches: Vec::new(alloc),
            places: Vec::new(alloc),
        }
    }

    /// Forgets the watches of the clauses from an index on; `len` clauses keep theirs.
    pub(crate) fn truncate(&mut self, len: usize) {
        self.watches.truncate(len);
    }

    /// Chooses the two literals that the next clause watches: those that are not false, else those
    /// that became false last.
    pub(crate) fn push(&mut self, clause: &Clause, trail: &Trail) -> Result<(), AllocError> {
        let mut watch = None;
        // As a list of literals, a clause says that a member is not in the selection, or an option
        // is.
        for id in clause.members() {
            let literal = Literal {
                place: id.place,
                is_in: false,
            };
            watch = better(watch, literal, trail);
        }
        for id in clause.options() {
            let literal = Literal {
                place: id.place,
                is_in: true,
            };
            watch = better(watch, literal, trail);
        }
        self.push_watch(watch)
    }

    // Appends the watched literals of the next clause, and adds the clause to the lists of these
    // literals.
    fn push_watch(&mut self, watch: Option<Watch>) -> Result<(), AllocError> {
        let index = self.watches.len();
        self.watches.push(watch)?;
        let Some(Watch { one, other }) = watch else {
            return Ok(());
        };
        self.add(one, index)?;
        if !is_same(one, other) {
            self.add(other, index)?;
        }
        Ok(())
    }

    // Adds the clause with an index to those that watch a literal.
    fn add(&mut self, literal: Literal, index: usize) -> Result<(), AllocError> {
        let place = literal.place as usize;
        grow(self.alloc, &mut self.places, place)?;
        self.places[place].of_mut(literal.is_in).push(index)?;
        Ok(())
    }

    /// How many clauses are listed under a literal: those that watch it, and some that did before.
    pub(crate) fn count(&self, literal: Literal) -> usize {
        match self.places.get(literal.place as usize) {
            Some(watching) => watching.of(literal.is_in).len(),
            None => 0,
        }
    }

    /// The index of a clause that is listed under a literal: of the one at `place` in that list.
    pub(crate) fn at(&self, literal: Literal, place: usize) -> Option<usize> {
        let watching = self.places.get(literal.place as usize)?;
        Some(*watching.of(literal.is_in).get(place)?)
    }

    /// Lets the clause at `index`, which watches the false literal `literal`, watch another literal
    /// that is not false. `place` is the place of this clause in the list of the clauses that watch
    /// `literal`. Returns true if there is no other literal to watch, so that the clause may force
    /// one.
    pub(crate) fn is_forcing(
        &mut self,
        literal: Literal,
        place: usize,
        index: usize,
        clause: &Clause,
        trail: &Trail,
    ) -> Result<bool, AllocError> {
        let Some(other) = self.other_of(literal, index) else {
            // The clause watches this literal no longer.
            self.remove(literal, place);
            return Ok(false);
        };
        // If the other watched literal is true, the clause forces nothing.
        if trail.truth(other) == Some(true) {
            return Ok(false);
        }
        let Some(free) = free_literal(clause, other, trail) else {
            // All literals but the other watched one are false: the clause may force that one.
            return Ok(true);
        };
        // The clause watches the literal `free` from now on, and not the false one.
        self.remove(literal, place);
        self.add(free, index)?;
        if let Some(watch) = self.watches.get_mut(index) {
            *watch = Some(Watch {
                one: other,
                other: free,
            });
        }
        Ok(false)
    }

    // The other literal that the clause at an index watches; None if this clause does not watch
    // `literal`.
    fn other_of(&self, literal: Literal, index: usize) -> Option<Literal> {
        let watch = (*self.watches.get(index)?)?;
        watch.beside(literal)
    }

    // Removes the clause at `place` from the list of the clauses that watch a literal. The last
    // clause of the list takes its place.
    fn remove(&mut self, literal: Literal, place: usize) {
        let Some(watching) = self.places.get_mut(literal.place as usize) else {
            return;
        };
        // The list of the clauses that watch the literal.
        let by = watching.of_mut(literal.is_in);
        let Some(last) = by.pop() else {
            return;
        };
        if place < by.len() {
            by[place] = last;
        }
    }
}

// Whether two literals are the same.
fn is_same(one: Literal, other: Literal) -> bool {
    one.place == other.place && one.is_in == other.is_in
}

// The watched literals of a clause after a further literal of it was seen: the two that became
// false last, or are not false. The best is first.
fn better(watch: Option<Watch>, literal: Literal, trail: &Trail) -> Option<Watch> {
    let Some(Watch { one, other }) = watch else {
        return Some(Watch {
            one: literal,
            other: literal,
        });
    };
    if is_same(one, literal) {
        return watch;
    }
    let rank = watch_rank(literal, trail);
    if rank > watch_rank(one, trail) {
        return Some(Watch {
            one: literal,
            other: one,
        });
    }
    if is_same(one, other) || rank > watch_rank(other, trail) {
        return Some(Watch {
            one,
            other: literal,
        });
    }
    watch
}

// How well a literal can be watched: the index of the step at which the literal became false, or
// the greatest number if the literal is not false.
fn watch_rank(literal: Literal, trail: &Trail) -> usize {
    match trail.truth(literal) {
        Some(false) => trail.step_of(literal),
        _ => usize::MAX,
    }
}

// A literal of the clause that is not false, and is not the literal `but`.
fn free_literal(clause: &Clause, but: Literal, trail: &Trail) -> Option<Literal> {
    match free_among(clause.options(), true, but, trail) {
        Some(literal) => Some(literal),
        None => free_among(clause.members(), false, but, trail),
    }
}

// The first literal of these candidates that is not false, and is not the literal `but`.
fn free_among(ids: &[CandId], is_in: bool, but: Literal, trail: &Trail) -> Option<Literal> {
    for id in ids {
        let literal = Literal {
            place: id.place,
            is_in,
        };
        if !is_same(literal, but) && trail.truth(literal) != Some(false) {
            return Some(literal);
        }
    }
    None
}

// Extends the list with places that no clause watches, until it has this place.
fn grow(alloc: Global, places: &mut Vec<Watching>, place: usize) -> Result<(), AllocError>
    ensures { OnOk result (place < vec_len places.new) }
{
    while places.len() <= place {
        let (is_in, is_out) = (Vec::new(alloc), Vec::new(alloc));
        places.push(Watching { is_in, is_out })?;
    }
    Ok(())
}
