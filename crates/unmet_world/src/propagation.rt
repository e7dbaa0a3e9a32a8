//! The search for a refutation (reasons why no selection satisfies world), by unit propagation. An
//! owner of dependencies is world, or a candidate. An owner is sure if each satisfying selection
//! meets its dependencies: world is, and each candidate that all satisfying selections have. A
//! candidate becomes sure if it alone is left for a dependency of a sure owner. A candidate is
//! ruled out if none is left for one of its dependencies, or if a sure candidate excludes it.
//!
//! No contract says what the search finds. `is_refutation` checks the refutation, so a wrong step
//! of the search can lose a refutation, but never makes a printed line untrue. The search looks at
//! a bounded number of options.
use crate::exclusion::exclude_each_other;
use crate::refutation::{Owner, Refutation, Step, Want, candidate, wanted};
use dep_core::World;
use search_tables::{CandId, Deps, NameTable, NeedRef, Options, Sealed};
use std::alloc::{AllocError, Global};

/// How many options the search lists at most, how many pairs of candidates it compares, and how
/// many turns it takes. This bounds its time and its memory.
const MOST_LOOKED_AT: usize = 262144;

/// A wanted dependency, of world or of a candidate. Its options are the candidates that meet it.
#[derive(Clone, Copy)]
struct Open {
    /// Who wants the dependency, and which of the owner's dependencies it is.
    want: Want,
    /// How many options of the dependency are not ruled out yet.
    left: usize,
}

/// A step that the search has concluded, and whether the end of the refutation needs it.
#[derive(Clone, Copy)]
struct Conclusion {
    /// The step.
    step: Step,
    /// Whether the end, or a later step that it needs, follows from this step.
    is_needed: bool,
}

/// An entry for a candidate that is an option of a wanted dependency. The entries of one candidate
/// are linked, from the latest to the first.
#[derive(Clone, Copy)]
struct Listed {
    /// The index of the wanted dependency in `Propagation::open`.
    open: usize,
    /// The index in `Propagation::listed` of the previous entry of the same candidate.
    before: Option<usize>,
}

/// What is known of a candidate.
#[derive(Clone, Copy)]
struct Known {
    /// Whether it is an option of a wanted dependency, and so is in the list `Propagation::seen`.
    is_seen: bool,
    /// Whether its own dependencies are listed as wanted.
    is_expanded: bool,
    /// The index in `Propagation::conclusions` of the step that rules it out, if one does.
    out: Option<usize>,
    /// The index in `Propagation::conclusions` of the step that makes it sure, if one does.
    sure: Option<usize>,
    /// The index in `Propagation::listed` of its latest entry, if it has one.
    listed: Option<usize>,
    /// The index in `Propagation::open` of its first wanted dependency.
    first: usize,
    /// The index in `Propagation::open` after its last wanted dependency.
    end: usize,
}

/// What is known of a candidate before the search has looked at it.
const NOTHING: Known = Known {
    is_seen: false,
    is_expanded: false,
    out: None,
    sure: None,
    listed: None,
    first: 0,
    end: 0,
};

/// The state of the search. The search remembers whether memory ran out, so that its functions
/// return no error.
struct Propagation<'p> {
    /// The allocator.
    alloc: Global,
    /// The candidates.
    pool: &'p Sealed<'p>,
    /// The world that the pool was sealed with.
    world: &'p World,
    /// The wanted dependencies: those of world, and those of expanded candidates.
    open: Vec<Open>,
    /// The options of all wanted dependencies, an entry for each.
    listed: Vec<Listed>,
    /// What is known of each candidate, in the order of their places in the pool.
    known: Vec<Known>,
    /// The conclusions so far.
    conclusions: Vec<Conclusion>,
    /// The indexes in `open` of wanted dependencies to look at: at most one option was left, or
    /// their owner became sure.
    few: Vec<usize>,
    /// How many entries of `few` were looked at.
    few_done: usize,
    /// The candidates that are options of wanted dependencies, each once.
    seen: Vec<CandId>,
    /// How many entries of `seen` were expanded (their own dependencies are listed as wanted).
    seen_done: usize,
    /// The expanded candidates that have conflicts, by the names in these conflicts.
    conflicts: NameTable<'p, CandId>,
    /// How many pairs of candidates were compared.
    compared: usize,
    /// The entry of world that has no option left, if the search has found one: the end of the
    /// refutation.
    end: Option<Want>,
    /// Whether memory ran out.
    is_out_of_memory: bool,
}

/// Drops the parts in one call, so that a function that gives up has one drop and not many.
impl Drop for Propagation<'_> {
    fn drop(self) {
        let Propagation {
            alloc: _,
            pool: _,
            world: _,
            open: _,
            listed: _,
            known: _,
            conclusions: _,
            few: _,
            few_done: _,
            seen: _,
            seen_done: _,
            conflicts: _,
            compared: _,
            end: _,
            is_out_of_memory: _,
        } = self;
    }
}

/// The refutation of world that the search finds, if it finds one.
pub(crate) fn propagate<'p>(
    alloc: Global,
    pool: &'p Sealed<'p>,
    world: &'p World,
) -> Result<Option<Refutation>, AllocError> {
    let mut search = Propagation {
        alloc,
        pool,
        world,
        open: Vec::new(alloc),
        listed: Vec::new(alloc),
        known: vec![in alloc; NOTHING; pool.len()]?,
        conclusions: Vec::new(alloc),
        few: Vec::new(alloc),
        few_done: 0,
        seen: Vec::new(alloc),
        seen_done: 0,
        conflicts: NameTable::new(alloc),
        compared: 0,
        end: None,
        is_out_of_memory: false,
    };
    for index in 0..world.len() {
        search.want(Owner::World, index);
    }
    search.run();
    let found = match search.end {
        None => None,
        Some(end) => Some(search.refutation(end)),
    };
    if search.is_out_of_memory {
        return Err(AllocError);
    }
    Ok(found)
}

impl<'p> Propagation<'p> {
    // Searches until the refutation has an end, nothing is left to look at, the limit is reached,
    // or memory runs out. Each turn looks at the next wanted dependency in `few`, and else expands
    // the next candidate in `seen`.
    fn run(&mut self) {
        for _ in 0..MOST_LOOKED_AT {
            if self.end.is_some() || self.is_out_of_memory {
                return;
            }
            if let Some(open) = self.few.get(self.few_done).copied() {
                self.few_done = self.few_done.saturating_add(1);
                self.look_at(open);
            } else if let Some(id) = self.seen.get(self.seen_done).copied() {
                self.seen_done = self.seen_done.saturating_add(1);
                self.expand(id);
            } else {
                return;
            }
        }
    }

    // What is known of a candidate.
    fn known_of(&self, id: CandId) -> Known {
        match self.known.get(id.place as usize) {
            Some(known) => *known,
            None => NOTHING,
        }
    }

    // Sets what is known of a candidate.
    fn set_known(&mut self, id: CandId, known: Known) {
        let place = id.place as usize;
        if place < self.known.len() {
            self.known[place] = known;
        }
    }

    // The options of a wanted dependency; None if it is a conflict or does not exist, or if memory
    // runs out.
    fn options_of(&mut self, want: Want) -> Option<Options> {
        let dep = match wanted(self.pool, self.world, want) {
            None => return None,
            Some(dep) => dep,
        };
        match self.pool.options_for(self.alloc, &NeedRef::Entry(&dep)) {
            Ok(options) => Some(options),
            Err(_) => {
                self.is_out_of_memory = true;
                None
            }
        }
    }

    // Lists a dependency of an owner as wanted, with its options. `index` is its index among the
    // dependencies of the owner. A conflict is left out, and so is all beyond the limit.
    fn want(&mut self, owner: Owner, index: usize) {
        let want = Want { owner, index };
        let Some(options) = self.options_of(want) else {
            return;
        };
        if self.listed.len() >= MOST_LOOKED_AT {
            return;
        }
        // The index that the dependency gets in `open`.
        let open = self.open.len();
        // How many options are not ruled out.
        let mut left: usize = 0;
        for i in 0..options.len() {
            if self.list(open, options.get(i)) {
                left = left.saturating_add(1);
            }
        }
        self.is_out_of_memory |= self.open.push(Open { want, left }).is_err();
        if left <= 1 {
            self.look_at_later(open);
        }
    }

    // Lists the candidate `id` as an option of the wanted dependency with the index `open`. Returns
    // whether the candidate is not ruled out.
    fn list(&mut self, open: usize, id: CandId) -> bool {
        let mut known = self.known_of(id);
        let before = known.listed;
        known.listed = Some(self.listed.len());
        self.is_out_of_memory |= self.listed.push(Listed { open, before }).is_err();
        if !known.is_seen {
            known.is_seen = true;
            self.is_out_of_memory |= self.seen.push(id).is_err();
        }
        self.set_known(id, known);
        known.out.is_none()
    }

    // Adds the wanted dependency with this index in `open` to those that `few` lists.
    fn look_at_later(&mut self, open: usize) {
        self.is_out_of_memory |= self.few.push(open).is_err();
    }

    // Draws the conclusion from a wanted dependency with one option left, or none. `open` is its
    // index.
    fn look_at(&mut self, open: usize) {
        let Some(Open { want, left }) = self.open.get(open).copied() else {
            return;
        };
        match want.owner {
            // No option of an entry of world is left: the search ends.
            Owner::World if left == 0 => self.end = Some(want),
            // A candidate that wants what no option meets is ruled out. A sure candidate is ruled
            // out too, so that the end is an entry of world.
            Owner::Package(id) if left == 0 => {
                let index = want.index;
                self.rule_out(candidate(id), Step::Broken { id, index })
            }
            Owner::Package(id) if self.known_of(candidate(id)).sure.is_none() => {}
            _ if left == 1 => self.one_left(want),
            _ => {}
        }
    }

    // One option of this dependency of a sure owner is left: this candidate becomes sure.
    fn one_left(&mut self, want: Want) {
        let Some(options) = self.options_of(want) else {
            return;
        };
        for i in 0..options.len() {
            let id = options.get(i);
            if self.known_of(id).out.is_none() {
                return self.make_sure(id, want);
            }
        }
    }

    // Rules a candidate out by a step. Each wanted dependency of which it is an option has one
    // option less.
    fn rule_out(&mut self, id: CandId, step: Step) {
        let mut known = self.known_of(id);
        if known.out.is_some() {
            return;
        }
        let mut next = known.listed;
        known.out = Some(self.conclude(step));
        self.set_known(id, known);
        // Goes through the linked entries of the candidate, from the latest to the first.
        for _ in 0..self.listed.len() {
            let Some(place) = next else {
                return;
            };
            let Some(listed) = self.listed.get(place).copied() else {
                return;
            };
            next = listed.before;
            if let Some(open) = self.open.get_mut(listed.open) {
                open.left = open.left.saturating_sub(1);
                if open.left <= 1 {
                    self.look_at_later(listed.open);
                }
            }
        }
    }

    // Adds a step to the conclusions, and returns its index.
    fn conclude(&mut self, step: Step) -> usize {
        let index = self.conclusions.len();
        let is_needed = false;
        self.is_out_of_memory |= self
            .conclusions
            .push(Conclusion { step, is_needed })
            .is_err();
        index
    }

    // Makes a candidate sure by a step, because of the dependency `want`. Its own dependencies are
    // those of a sure owner now, and the candidates that it excludes are ruled out.
    fn make_sure(&mut self, id: CandId, want: Want) {
        let mut known = self.known_of(id);
        if known.sure.is_some() {
            return;
        }
        known.sure = Some(self.conclude(Step::Sure { id: id.place, want }));
        self.set_known(id, known);
        self.expand(id);
        // All its dependencies are looked at again, since their owner is sure now.
        for open in known.first..known.end {
            self.look_at_later(open);
        }
        self.exclude_with(id)
    }

    // Expands a candidate, unless this was done: lists its dependencies as wanted, and its
    // conflicts by the names in them. Rules the candidate out if a sure candidate meets a conflict.
    fn expand(&mut self, id: CandId) {
        if self.known_of(id).is_expanded {
            return;
        }
        let Some(details) = self.pool.at(id) else {
            return;
        };
        // The index in `open` of the first dependency that is listed now.
        let first = self.open.len();
        let depends = details.depends();
        for index in 0..depends.len() {
            let dep = depends.get(index);
            if dep.conflict {
                self.is_out_of_memory |= self.conflicts.add(dep.name, id).is_err();
                self.exclude_by_sure(id, dep.name);
            } else {
                self.want(Owner::Package(id.place), index);
            }
        }
        let mut known = self.known_of(id);
        known.is_expanded = true;
        // Its dependencies are the entries of `open` from `first` on.
        known.first = first;
        known.end = self.open.len();
        self.set_known(id, known);
    }

    // Rules the candidate `id` out if it and a sure candidate that offers this name exclude each
    // other.
    fn exclude_by_sure(&mut self, id: CandId, name: &[u8]) {
        let pool = self.pool;
        for by in pool.offers(name) {
            if self.known_of(*by).sure.is_some() {
                self.exclude(id, *by);
            }
        }
    }

    // Rules out the candidates that the sure candidate `by` excludes.
    fn exclude_with(&mut self, by: CandId) {
        let Some(details) = self.pool.at(by) else {
            return;
        };
        self.exclude_at(details.name(), by);
        self.exclude_at_all(&details.provides(), by);
        self.exclude_at_all(&details.depends(), by)
    }

    // Rules out the candidates that the sure candidate `by` excludes, for each name in these
    // dependencies or provides of it.
    fn exclude_at_all(&mut self, deps: &Deps<'p>, by: CandId) {
        for i in 0..deps.len() {
            let dep = deps.get(i);
            if dep.conflict || dep.version.is_some() {
                self.exclude_at(dep.name, by);
            }
            self.exclude_conflicting(dep.name, by);
        }
    }

    // Rules out the candidates that the sure candidate `by` excludes, among those that offer this
    // name or have a conflict with it.
    fn exclude_at(&mut self, name: &[u8], by: CandId) {
        let pool = self.pool;
        for id in pool.offers(name) {
            self.exclude(*id, by);
        }
        self.exclude_conflicting(name, by)
    }

    // Rules out the candidates that the sure candidate `by` excludes, among the expanded ones that
    // have a conflict with this name.
    fn exclude_conflicting(&mut self, name: &[u8], by: CandId) {
        let Ok(ids) = Vec::from_slice(self.alloc, self.conflicts.get(name)) else {
            self.is_out_of_memory = true;
            return;
        };
        for id in &ids {
            self.exclude(*id, by);
        }
    }

    // Rules the candidate `id` out if it and the sure candidate `by` exclude each other. Does
    // nothing once too many pairs were compared.
    fn exclude(&mut self, id: CandId, by: CandId) {
        if self.compared >= MOST_LOOKED_AT {
            return;
        }
        self.compared = self.compared.saturating_add(1);
        if exclude_each_other(self.pool, by, id) {
            self.rule_out(
                id,
                Step::Excluded {
                    id: id.place,
                    by: by.place,
                },
            );
        }
    }

    // ---- what an end needs

    // The refutation with this end: of all steps so far those that the end needs, the last one
    // first.
    fn refutation(&mut self, end: Want) -> Refutation {
        self.mark_want(end);
        let mut steps = Vec::new(self.alloc);
        // From the last step to the first: a step that is needed is kept, and marks the steps from
        // which it follows.
        for place in (0..self.conclusions.len()).rev() {
            let Some(Conclusion { step, is_needed }) = self.conclusions.get(place).copied() else {
                continue;
            };
            if !is_needed {
                continue;
            }
            self.is_out_of_memory |= steps.push(step).is_err();
            match step {
                Step::Broken { id, index } => {
                    let owner = Owner::Package(id);
                    self.mark_options(Want { owner, index })
                }
                Step::Excluded { id: _, by } => self.mark(self.known_of(candidate(by)).sure),
                Step::Sure { id: _, want } => self.mark_want(want),
            }
        }
        Refutation { steps, end }
    }

    // Marks the step that makes the owner of a wanted dependency sure, and the steps that rule out
    // options of the dependency. World needs no step.
    fn mark_want(&mut self, want: Want) {
        if let Owner::Package(id) = want.owner {
            self.mark(self.known_of(candidate(id)).sure);
        }
        self.mark_options(want)
    }

    // Marks the steps that rule out options of a wanted dependency.
    fn mark_options(&mut self, want: Want) {
        let Some(options) = self.options_of(want) else {
            return;
        };
        for i in 0..options.len() {
            self.mark(self.known_of(options.get(i)).out);
        }
    }

    // Marks the step with this index as needed, if there is one.
    fn mark(&mut self, step: Option<usize>) {
        let Some(index) = step else {
            return;
        };
        if let Some(conclusion) = self.conclusions.get_mut(index) {
            conclusion.is_needed = true;
        }
    }
}
