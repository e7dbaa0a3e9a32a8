//! The choices so far, the needs that they raise, and the first need that no choice meets. The
//! rules are in `docs/selection.md`: "Which selection is taken" (the order in which needs are met),
//! and "What satisfies world", 4 (install-if). `solve_core` makes the choices and takes them back.
ghost use Rattle.std.specs.Prelude.{◌≡◌, ◌≤◌, ℕ, List, [], ◌∷◌, ◌++◌, ◌<◌, ◌^◌, length, IfSome, false, true, IfOk, OnOk, MatchOption, MatchBool, None, Some, ◌+◌, option_copied, slice_get, option_to_list};
ghost use Rattle.std.specs.List.{find};
ghost use Rattle.dep_core.specs.Dependency.{Dependency};
ghost use Rattle.dep_core.specs.Meets.{dependency};
ghost use Rattle.search_needs.specs.candidate_core.Candidates.{Candidate, entry};
ghost use Rattle.search_needs.specs.candidate_core.Candidates.{offers_name};
ghost use Rattle.search_needs.specs.candidate_core.Options.{IsIn, options_for};
ghost use Rattle.search_needs.specs.candidate_core.PackageMatches.{AreMatchesAmong};
ghost use Rattle.search_needs.specs.TriggeredInstallIf.{AreNoneTriggeredBelow, IsLeastTriggeredInstallIf, IsNoInstallIfTriggered, is_install_if_triggered_at_rank};
ghost use Rattle.search_needs.specs.search_tables.NameTable.{items_under_name};
ghost use Rattle.search_needs.specs.search_tables.Queue.{AreFirstDepsMet, is_unmet_dep, queue_of};
ghost use Rattle.search_needs.specs.search_tables.Selection.{depends_at, is_met, next_need};
ghost use Rattle.search_needs.specs.search_tables.Reasons.{IsFrameOf};
ghost use Rattle.search_choices.specs.Choices.{IsConsistent, choices_of, install_ifs_of, pool_of};
ghost use Rattle.search_needs.specs.search_tables.Conflicts.{AreConflictsOf};
ghost use Rattle.search_needs.specs.search_tables.Excluders.{IsConflictTable};

mod excluders;

use crate::trace::Trace;
use dep_core::World;
use search_needs::{
    CandId, CandidateSet, Checkpoint, Conflicts, Deps, Details, Frame, InstallIfs, NeedRef,
    PackageDep, PackageMatches, RaisedDep, Sealed, is_held_met, is_met_by_latest_or_other,
    is_triggered_by_install_if, queue_all, queue_world, raisers,
};
use std::alloc::{AllocError, Global};
use std::marker::Model;

/// The state of the choices:
///
/// - the choices so far;
/// - the queue of the dependencies that world and the choices raise, and a cursor: every dependency
///   before this cursor is met;
/// - the install-ifs in byte order of names, and a cursor: no install-if before this cursor
///   triggers
///   its candidate;
/// - the conflicts of the choices;
/// - for each choice, the state of the queue and of the two cursors before this choice.
#[derive(Drop)]
pub struct Choices<'p> {
    /// The allocator.
    alloc: Global,
    /// The pool: the candidates, and the world that they were sealed with.
    pool: &'p Sealed<'p>,
    /// The choices, in the order chosen.
    choices: CandidateSet,
    /// The dependencies that world and the choices raise, in the order in which they are to be met.
    queue: Vec<RaisedDep<'p>>,
    /// The cursor of the queue: how many dependencies at its start are known to be met.
    cursor: usize,
    /// The candidates whose install-if can apply, in byte order of their names.
    install_ifs: InstallIfs<'p>,
    /// How many install-ifs at the start of the list are known not to trigger their candidates.
    asking_cursor: usize,
    /// The conflicts of the choices, under their names.
    conflicts: Conflicts<'p>,
    /// For each choice, the state of the queue and of the two cursors before it.
    checkpoints: Vec<Checkpoint>,
}

impl<'p> Choices<'p> {
    /// No choices, under the world that the pool was sealed with.
    pub fn new(
        alloc: Global,
        pool: &'p Sealed<'p>,
        world: &'p World,
    ) -> Result<Choices<'p>, AllocError>
        requires { world.now ≡ pool.now.world }
        ensures consistent { IfOk result (λ chosen. IsConsistent chosen) }
        ensures pool { IfOk result (λ chosen. pool_of chosen ≡ pool.entry.now) }
        ensures none { IfOk result (λ chosen. choices_of chosen ≡ []) }
    {
        let mut queue = Vec::new(alloc);
        queue_world(&mut queue, world)?;
        let install_ifs = InstallIfs::new(alloc, pool)?;
        // Without choices, nothing is known to be met: both cursors are at the start.
        Ok(Choices {
            alloc,
            pool,
            choices: CandidateSet::new(alloc),
            queue,
            cursor: 0,
            install_ifs,
            asking_cursor: 0,
            conflicts: Conflicts::new(alloc),
            checkpoints: Vec::new(alloc),
        })
    }

    /// Whether a candidate is a choice.
    pub fn has(&self, id: CandId) -> bool
        // True: the candidate is a choice. False: it is none.
        ensures { MatchBool result (IsIn id (choices_of self.now)) (IsIn id (choices_of self.now)
            → ⊥) }
    {
        self.choices.has(id)
    }

    /// Makes a candidate the latest choice. After an error the choices may only be dropped.
    pub fn push(&mut self, id: CandId) -> Result<(), AllocError>
        requires consistent { IsConsistent self.old }
        requires within { id < length (pool_of self.old).candidates }
        // The candidate is no choice yet.
        requires once { IsIn id (choices_of self.old) → ⊥ }
        ensures consistent { OnOk result (IsConsistent self.new) }
        ensures pool { pool_of self.new ≡ pool_of self.old }
        ensures choices { OnOk result (choices_of self.new ≡ choices_of self.old ++ id ∷ []) }
    {
        // To this state `pop` returns.
        let before = Checkpoint {
            queue_len: self.queue.len(),
            cursor: self.cursor,
            asking_cursor: self.asking_cursor,
        };
        let details = self.pool.details(id);
        let depends = details.depends();
        queue_all(&mut self.queue, &depends, id)?;
        self.conflicts.add(&depends, id)?;
        self.checkpoints.push(before)?;
        self.choices.push(id)?;
        // The new choice can trigger only an install-if that has an entry of a name that this
        // choice offers.
        self.asking_cursor = self.least_rank_asking(&details);
        Ok(())
    }

    /// Takes the latest choice back.
    pub fn pop(&mut self)
        requires { IsConsistent self.old }
        ensures consistent { IsConsistent self.new }
        ensures pool { pool_of self.new ≡ pool_of self.old }
        // The latest choice is removed; the others stay in their order.
        ensures choices { (rest : List ℕ) (last : ℕ) → choices_of self.old ≡ rest ++ last ∷ [] →
            choices_of self.new ≡ rest }
    {
        if let Some(before) = self.checkpoints.pop() {
            // The conflicts of the latest choice are removed first, while the choice is still in
            // the set.
            self.take_conflicts_away();
            self.choices.pop();
            self.queue.truncate(before.queue_len);
            self.cursor = before.cursor;
            self.asking_cursor = before.asking_cursor;
        }
    }

    // Removes the conflicts of the latest choice from the table of conflicts.
    fn take_conflicts_away(&mut self)
        requires { IsConflictTable (pool_of self.old) (choices_of self.old) self.old.conflicts }
        // Only the table, the field `conflicts`, changes.
        ensures others { self.new ≡ record self.old { conflicts = self.new.conflicts } }
        // The table then has the conflicts of the choices except the latest one.
        ensures listed { (rest : List ℕ) (last : ℕ) → choices_of self.old ≡ rest ++ last ∷ [] →
            IsConflictTable (pool_of self.old) rest self.new.conflicts }
        // If each entry of the table was a conflict of one of these candidates, it still is.
        ensures conflicts { (candidates : List Candidate)
            → AreConflictsOf candidates self.old.conflicts.by_name
            → AreConflictsOf candidates self.new.conflicts.by_name }
    {
        if let Some(id) = self.choices.last() {
            if let Some(details) = self.pool.at(id) {
                self.conflicts.pop_all(&details.depends());
            }
        }
    }

    /// The frame of the first need that no choice meets; None if each need is met. Of the state of
    /// the choices, only the cursors change. Results for long versions are remembered.
    pub fn next_frame(
        &mut self,
        matches: &mut PackageMatches<'_>,
    ) -> Result<Option<Frame>, AllocError>
        requires consistent { IsConsistent self.old }
        requires matches { AreMatchesAmong (pool_of self.old).candidates matches.old }
        ensures consistent { IsConsistent self.new }
        ensures pool { pool_of self.new ≡ pool_of self.old }
        ensures choices { choices_of self.new ≡ choices_of self.old }
        // The frame has fewer than 2^64 options left, so that their number is a digit of the
        // measure of the search (*base* of `Measure` in `solve_core`).
        ensures few { IfOk result (λ found. IfSome found (λ frame. length frame.1 < 2 ^ 64)) }
        // None: no need is left. Otherwise: the frame of the next need.
        ensures frame { IfOk result (λ found. MatchOption found (next_need (pool_of self.old)
            (choices_of self.old) ≡ None) (λ frame. IsFrameOf (pool_of self.old)
            (choices_of self.old) frame)) }
        ensures matches { OnOk result (AreMatchesAmong (pool_of self.old).candidates matches.new) }
    {
        self.skip_met(matches)?;
        // Dependencies come first; names by install-if only if each dependency is met.
        match self.front() {
            Some(raised) => {
                let frame = frame_of(self.alloc, self.pool, raised)?;
                Ok(Some(frame))
            }
            None => {
                let found = self.frame_asked()?;
                Ok(found)
            }
        }
    }

    // Moves the cursor of the queue to the first raised dependency that no choice meets, or to the
    // end.
    fn skip_met(&mut self, matches: &mut PackageMatches<'_>) -> Result<(), AllocError>
        requires consistent { IsConsistent self.old }
        requires matches { AreMatchesAmong (pool_of self.old).candidates matches.old }
        ensures consistent { IsConsistent self.new }
        ensures pool { pool_of self.new ≡ pool_of self.old }
        ensures choices { choices_of self.new ≡ choices_of self.old }
        // At the cursor of the queue there is then the first dependency that no choice meets, if
        // there is one.
        ensures front { OnOk result (slice_get self.new.queue.items self.new.cursor
            ≡ find (is_unmet_dep (pool_of self.old) (choices_of self.old)) (queue_of
            (pool_of self.old) (choices_of self.old))) }
        ensures matches { OnOk result (AreMatchesAmong (pool_of self.old).candidates matches.new) }
    {
        'met: while self.is_front_met(matches)? {
            self.cursor += 1;
        }
        Ok(())
    }

    // Whether the queue has a dependency at its cursor, and a choice meets this dependency.
    fn is_front_met(&self, matches: &mut PackageMatches<'_>) -> Result<bool, AllocError>
        requires consistent { IsConsistent self.now }
        requires matches { AreMatchesAmong (pool_of self.now).candidates matches.old }
        // True: all dependencies of the queue up to and including the one at the cursor are met.
        // False: the entry at the cursor is the first that no choice meets, or the queue ends
        // there.
        ensures met { IfOk result (λ met. MatchBool met (AreFirstDepsMet (pool_of self.now)
            (choices_of self.now) (self.now.cursor + 1))
            (slice_get self.now.queue.items self.now.cursor
            ≡ find (is_unmet_dep (pool_of self.now) (choices_of self.now)) (queue_of
            (pool_of self.now) (choices_of self.now)))) }
        ensures matches { OnOk result (AreMatchesAmong (pool_of self.now).candidates matches.new) }
    {
        match self.front() {
            Some(raised) => self.is_raised_met(raised, matches),
            None => Ok(false),
        }
    }

    // Whether a choice meets a raised dependency. Results for long versions are remembered, unless
    // the dependency is an entry of world.
    fn is_raised_met(
        &self,
        raised: &RaisedDep<'p>,
        matches: &mut PackageMatches<'_>,
    ) -> Result<bool, AllocError>
        // If a choice raised the dependency, it is the entry of this choice's `depends` at the
        // stored index.
        requires raised { (c : ℕ) → raised.now.1 ≡ Some c →
            slice_get (depends_at (pool_of self.now) c) raised.now.2 ≡ Some raised.now.0 }
        requires matches { AreMatchesAmong (pool_of self.now).candidates matches.old }
        // The answer is whether a choice meets the dependency.
        ensures met { IfOk result (λ met. met
            ≡ is_met (pool_of self.now) (choices_of self.now) (entry raised.now.0)) }
        ensures matches { OnOk result (AreMatchesAmong (pool_of self.now).candidates matches.new) }
    {
        let dep = raised.dep();
        match raised.by() {
            None => {
                let need = NeedRef::Entry(dep);
                Ok(is_met_by_latest_or_other(self.pool, &self.choices, &need))
            }
            Some(choice) => {
                let held = PackageDep {
                    dep,
                    package: choice.place as usize,
                    index: raised.index(),
                };
                is_held_met(self.pool, &self.choices, &held, matches)
            }
        }
    }

    // The raised dependency at the cursor of the queue, if the queue has one there.
    fn front(&self) -> Option<&RaisedDep<'p>>
        ensures { option_copied result ≡ slice_get self.now.queue.items self.now.cursor }
    {
        self.queue.get(self.cursor)
    }

    // The frame of the least name, in byte order, whose install-if applies and that no choice has;
    // None if there is no such name. Each raised dependency must be met before the call.
    fn frame_asked(&mut self) -> Result<Option<Frame>, AllocError>
        requires consistent { IsConsistent self.old }
        // Each raised dependency is met.
        requires met { find (is_unmet_dep (pool_of self.old) (choices_of self.old)) (queue_of
            (pool_of self.old) (choices_of self.old)) ≡ None }
        ensures consistent { IsConsistent self.new }
        ensures pool { pool_of self.new ≡ pool_of self.old }
        ensures choices { choices_of self.new ≡ choices_of self.old }
        // As in `next_frame`: the number of options that are left is a digit of the measure.
        ensures few { IfOk result (λ found. IfSome found (λ frame. length frame.1 < 2 ^ 64)) }
        // None: no need is left. Otherwise: the frame of the next need.
        ensures frame { IfOk result (λ found. MatchOption found (next_need (pool_of self.old)
            (choices_of self.old) ≡ None) (λ frame. IsFrameOf (pool_of self.old)
            (choices_of self.old) frame)) }
    {
        self.skip_unasked();
        match self.install_ifs.at(self.asking_cursor) {
            None => Ok(None),
            Some(id) => {
                let frame = self.frame_named(id)?;
                Ok(Some(frame))
            }
        }
    }

    // Moves the cursor of the install-ifs to the first candidate that is triggered, or to the end.
    fn skip_unasked(&mut self)
        requires { IsConsistent self.old }
        ensures consistent { IsConsistent self.new }
        ensures pool { pool_of self.new ≡ pool_of self.old }
        ensures choices { choices_of self.new ≡ choices_of self.old }
        // At the cursor there is then the first candidate that is triggered, which has the least
        // name. If the list ends there, no candidate is triggered.
        ensures first { MatchOption (slice_get (install_ifs_of self.new) self.new.asking_cursor)
            (IsNoInstallIfTriggered (pool_of self.old) (choices_of self.old))
            (λ id. IsLeastTriggeredInstallIf (pool_of self.old) (choices_of self.old) id) }
    {
        while self.is_front_unasked() {
            self.asking_cursor += 1;
        }
    }

    // Whether there is a candidate at the cursor of the install-ifs that is not triggered.
    fn is_front_unasked(&self) -> bool
        requires { IsConsistent self.now }
        // True: the install-ifs up to and including the one at the cursor trigger no candidate.
        // False: the candidate at the cursor is the first that is triggered, or the list ends
        // there.
        ensures { MatchBool result ((self.now.asking_cursor + 1
            ≤ length (install_ifs_of self.now)) × AreNoneTriggeredBelow (pool_of self.now)
            (choices_of self.now) (install_ifs_of self.now) (self.now.asking_cursor + 1))
            (MatchOption (slice_get (install_ifs_of self.now) self.now.asking_cursor)
            (IsNoInstallIfTriggered (pool_of self.now) (choices_of self.now))
            (λ id. IsLeastTriggeredInstallIf (pool_of self.now) (choices_of self.now) id)) }
    {
        match self.install_ifs.at(self.asking_cursor) {
            None => false,
            Some(id) => !is_triggered_by_install_if(self.pool, &self.choices, id),
        }
    }

    // The frame of the name of the candidate `id`, which is triggered and has the least name of all
    // triggered candidates. Each raised dependency must be met. The choices that meet the entries
    // of the install-if raise the need.
    fn frame_named(&self, id: CandId) -> Result<Frame, AllocError>
        // Each raised dependency is met.
        requires met { find (is_unmet_dep (pool_of self.now) (choices_of self.now)) (queue_of
            (pool_of self.now) (choices_of self.now)) ≡ None }
        requires least { IsLeastTriggeredInstallIf (pool_of self.now) (choices_of self.now) id }
        // As in `next_frame`: the number of options that are left is a digit of the measure.
        ensures few { IfOk result (λ frame. length frame.1 < 2 ^ 64) }
        // The frame is that of the next need.
        ensures frame { IfOk result (λ frame. IsFrameOf (pool_of self.now)
            (choices_of self.now) frame) }
    {
        let details = self.pool.details(id);
        let by = raisers(self.alloc, self.pool, &self.choices, &details.install_if())?;
        let options = self
            .pool
            .options_for(self.alloc, &NeedRef::Named(details.name()))?;
        Ok(Frame::new(self.alloc, options.into_ids(), by))
    }

    // Whether the candidate with a rank, which is its index in the list of install-ifs, is
    // triggered by its install-if; false if the list has no such index.
    fn is_install_if_triggered_at_rank(&self, rank: usize) -> bool
        ensures { result ≡ is_install_if_triggered_at_rank (pool_of self.now) (choices_of self.now)
            (install_ifs_of self.now) rank }
    {
        match self.install_ifs.at(rank) {
            None => false,
            Some(id) => is_triggered_by_install_if(self.pool, &self.choices, id),
        }
    }

    // The cursor of the install-ifs after the candidate with these details is chosen. It is
    // unchanged, or the least rank before it whose install-if has an entry of a name that the
    // candidate offers, and now triggers its candidate. A new choice can trigger no other
    // install-if.
    fn least_rank_asking(&self, details: &Details<'_>) -> usize
        ensures less { result ≤ self.now.asking_cursor }
        // No install-if with a rank below the result, and with an entry of a name that the
        // candidate offers, triggers its candidate.
        ensures unasked { (name : List ℕ) (rank : ℕ) → offers_name name details.now ≡ true →
            IsIn rank (items_under_name self.now.install_ifs.waiting name) → rank < result →
            is_install_if_triggered_at_rank (pool_of self.now) (choices_of self.now)
            (install_ifs_of self.now) rank
            ≡ false }
    {
        let own = self.least_rank_waiting(details.name(), self.asking_cursor);
        self.least_rank_provided(&details.provides(), own)
    }

    // The cursor; or, if less, the least rank whose install-if has an entry of the name of one of
    // these entries of provides, and triggers its candidate.
    fn least_rank_provided(&self, provides: &Deps<'_>, cursor: usize) -> usize
        ensures less { result ≤ cursor }
        // No install-if with a rank below the result, and with an entry of one of these names,
        // triggers its candidate.
        ensures unasked { (d : Dependency) (rank : ℕ) → IsIn d provides.now →
            IsIn rank (items_under_name self.now.install_ifs.waiting d.name) → rank < result →
            is_install_if_triggered_at_rank (pool_of self.now) (choices_of self.now)
            (install_ifs_of self.now) rank
            ≡ false }
    {
        let mut least = cursor;
        for i in 0..provides.len() {
            least = self.least_rank_waiting(provides.get(i).name, least);
        }
        least
    }

    // The cursor; or, if less, the least rank whose install-if has an entry of this name, and
    // triggers its candidate.
    fn least_rank_waiting(&self, name: &[u8], cursor: usize) -> usize
        ensures less { result ≤ cursor }
        // No install-if with a rank below the result, and with an entry of this name, triggers its
        // candidate.
        ensures unasked { (rank : ℕ) →
            IsIn rank (items_under_name self.now.install_ifs.waiting name.now) → rank < result →
            is_install_if_triggered_at_rank (pool_of self.now) (choices_of self.now)
            (install_ifs_of self.now) rank
            ≡ false }
    {
        let mut least = cursor;
        for rank in self.install_ifs.waiting_for(name) {
            least = self.lesser_rank(*rank, least);
        }
        least
    }

    // The lesser of two ranks of install-ifs: of `least`, and of `rank`, which counts only if its
    // install-if triggers its candidate.
    fn lesser_rank(&self, rank: usize, least: usize) -> usize
        ensures less { result ≤ least }
        // If `rank` is below the result, its install-if triggers no candidate.
        ensures unasked { rank < result
            → is_install_if_triggered_at_rank (pool_of self.now) (choices_of self.now)
            (install_ifs_of self.now) rank ≡ false }
    {
        if rank < least && self.is_install_if_triggered_at_rank(rank) {
            return rank;
        }
        least
    }

    /// The choices, in the order chosen, as the result of the search.
    pub fn trace(&self, alloc: Global) -> Result<Trace, AllocError>
        ensures { IfOk result (λ trace. trace ≡ choices_of self.now) }
    {
        Trace::of(alloc, self.choices.as_slice())
    }
}

// The frame of a raised dependency. All its options are left. The choice that has the dependency
// raised it; an entry of world is raised by no choice.
fn frame_of(alloc: Global, pool: &Sealed<'_>, raised: &RaisedDep<'_>) -> Result<Frame, AllocError>
    ensures few { IfOk result (λ frame. length frame.1 < 2 ^ 64) }
    // No option is ruled out, all options are left, and at most one choice raised the need.
    ensures value { IfOk result (λ frame. frame ≡ (
      [],
      options_for pool.now
          (entry raised.now.0),
      option_to_list raised.now.1,
    )) }
{
    let mut by = Vec::new(alloc);
    if let Some(id) = raised.by() {
        by.push(id)?;
    }
    let options = pool.options_for(alloc, &NeedRef::Entry(raised.dep()))?;
    Ok(Frame::new(alloc, options.into_ids(), by))
}
