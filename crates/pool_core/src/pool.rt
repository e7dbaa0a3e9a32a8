//! A pool under construction: the candidates of indexes and of the database, until they are sealed.
//! The rules are in `docs/selection.md`, "What there is to choose from".
ghost use Rattle.std.specs.Prelude.{◌≡◌, ◌≤◌, ◌<◌, ◌+◌, [], ◌++◌, length, true, None, Some, IfOk, OnOk, OnErr, IfErr, option_copied};
ghost use Rattle.option_ranks.specs.adb_schema.Views.{index_value, info_value};
ghost use Rattle.adb_view.specs.Values.{count_of, entries_in, entry_at_index};
ghost use Rattle.option_ranks.specs.candidate_core.declared.candidate_list.TheConstants.{MOST_CANDIDATES};
ghost use Rattle.option_ranks.specs.candidate_core.Candidates.{candidate_of, candidates_of_index, with_installed_marked_or_added};
ghost use Rattle.option_ranks.specs.candidate_core.CandidateList.{IsCandidateList};
ghost use Rattle.option_ranks.specs.candidate_core.Packages.{candidates_of_packages};
ghost use Rattle.option_ranks.specs.candidate_core.Rank.{selection_problem_from_parts};
ghost use Rattle.option_ranks.specs.candidate_core.Values.{IsPoolFault, names_upgraded_by};

use crate::sealed::{Sealed, seal_list};
use adb_view::Which;
use dep_core::World;
use option_ranks::{
    CandidateList, IndexView, PkgInfo, PoolFault, Source, Upgrade,
    entries_keep_the_rule_of_their_list, objects_field,
};
use std::alloc::{AllocError, Global};
use std::marker::Model;

/// Candidates under construction. Add all indexes before the first installed package: the packages
/// of a later index come after it in the list, and are not marked as installed. After an error the
/// pool is empty.
pub struct Pool<'a> {
    /// The allocator.
    alloc: Global,
    /// The candidates so far; None before the first one is added, and after an error.
    list: Option<CandidateList<'a>>,
}

/// Drops the parts in one call, so that a function that gives up has one drop and not many.
impl Drop for Pool<'_> {
    fn drop(self) {
        let Pool { alloc: _, list: _ } = self;
    }
}

impl<'a> Model for Pool<'a> {
    ghost use Rattle.std.specs.Coded.{codes};
    ghost use Rattle.option_ranks.specs.candidate_core.PlainCode.{plain_code};
    ghost use Rattle.std.specs.Prelude.{List as Items};
    ghost use Rattle.std.specs.Option.{ForSome};
    ghost use Rattle.option_ranks.specs.candidate_core.Candidates.{Candidate};
    ghost use Rattle.option_ranks.specs.candidate_core.CandidateList.{IsCandidateList, candidates_in};

    // The value is the list of candidates: their places are its indexes, counted from 0.
    ghost Value = { Items Candidate };

    // Pools with equal codes are equal (`Coded`).
    ghost coded = { Prim.hlevel (codes, plain_code) };

    // The candidates of the list; none without a list.
    ghost view = { λ pool. candidates_in pool.list };

    // If there is a list, its table leads to the offers of each name, and the list is within the
    // limit.
    ghost invariant = { λ pool. ForSome pool.list (λ list. IsCandidateList list) };
}

impl<'a> Pool<'a> {
    /// A pool without candidates.
    pub fn new(alloc: Global) -> Pool<'a>
        ensures { result ≡ [] }
    {
        Pool { alloc, list: None }
    }

    // Takes the candidates so far out of the pool, which is then empty.
    fn take_list(&mut self) -> CandidateList<'a>
        ensures list { IsCandidateList result }
        ensures taken { candidates_of_packages result.packages ≡ self.old }
        ensures rest { self.new ≡ [] }
    {
        match self.list.take() {
            Some(list) => list,
            None => CandidateList::new(self.alloc),
        }
    }

    // Puts the candidates `list` back into the pool if `added` is Ok, and else drops them. Returns
    // `added`.
    fn keep(
        &mut self,
        list: CandidateList<'a>,
        added: Result<(), PoolFault>,
    ) -> Result<(), PoolFault>
        requires list { OnOk added (IsCandidateList list) }
        requires none { self.old ≡ [] }
        ensures answer { result ≡ added }
        ensures ok { OnOk added (self.new ≡ candidates_of_packages list.entry.packages) }
        ensures err { OnErr added (self.new ≡ []) }
    {
        match added {
            Ok(()) => {
                self.list = Some(list);
                Ok(())
            }
            Err(fault) => Err(fault),
        }
    }

    /// Appends the packages of a repository's index; `repo` is the number of the repository,
    /// counted from 1. TooMany is returned only if the list would exceed its limit, and Ok only if
    /// it would not; out of memory is possible in both cases. In the clauses, 1 is the index of
    /// `packages` among the fields of an index, counted from 0 (2 in table 8 of `docs/formats.md`,
    /// "Schemas").
    pub fn add_index(
        &mut self,
        index: IndexView<'a>,
        repo: u64,
        tag: Option<&'a [u8]>,
    ) -> Result<(), PoolFault>
        // The packages of the index are appended as candidates, in their order. In the clause, 1 is
        // the index of the field with the packages.
        ensures ok { OnOk result (self.new ≡ self.old
            ++ candidates_of_index repo (option_copied tag.entry)
            (entries_in (entry_at_index (index_value index.entry) 1))) }
        // The list has at most as many candidates as its limit allows.
        ensures fits { OnOk result (length self.new ≤ MOST_CANDIDATES) }
        // A refusal for too many candidates is right for the number of candidates that the list
        // would have.
        ensures fault { IfErr result (λ fault. IsPoolFault fault
            (length self.old + count_of (entries_in (entry_at_index
            (index_value index.entry) 1)))) }
        ensures err { OnErr result (self.new ≡ []) }
    {
        let mut list = self.take_list();
        // The field with index 1, counted from 0, has the packages.
        let packages = objects_field(index.adb(), Which::Index, index.word(), 1, Which::PkgInfo);
        // Laws that the proof needs; they have no effect at run time.
        index.values_keep_their_rules();
        entries_keep_the_rule_of_their_list();
        let source = Source {
            adb: index.adb(),
            repo: Some(repo),
            tag,
            // The texts were tested with the index.
            has_sound_texts: true,
        };
        let added = list.push_all(source, packages);
        self.keep(list, added)
    }

    /// Adds an installed package, or marks the candidates that are the same package as installed. A
    /// package that is added is from no repository and has no tag. TooMany is returned only if the
    /// list would exceed its limit, and Ok only if it would not; out of memory is possible in both
    /// cases.
    pub fn add_installed(&mut self, info: PkgInfo<'a>) -> Result<(), PoolFault>
        // The list then has the installed package: the candidates that are the same package are
        // marked, or the installed package is a candidate of its own.
        ensures ok { OnOk result (self.new
            ≡ with_installed_marked_or_added self.old (candidate_of
            (info_value info.entry) None None true)) }
        ensures fits { OnOk result (length self.new ≤ MOST_CANDIDATES) }
        // A refusal for too many candidates is right for the number of candidates that the list
        // would have.
        ensures fault { IfErr result (λ fault. IsPoolFault fault
            (length (with_installed_marked_or_added self.old
            (candidate_of (info_value info.entry) None None true)))) }
        ensures err { OnErr result (self.new ≡ []) }
    {
        let mut list = self.take_list();
        let added = list.push_installed(self.alloc, info);
        self.keep(list, added)
    }

    /// Joins the candidates to a world and to the names that a command upgrades.
    pub fn seal(self, world: &'a World, upgrade: Upgrade<'a>) -> Result<Sealed<'a>, AllocError>
        ensures { IfOk result (λ sealed. sealed
            ≡ selection_problem_from_parts self.entry world.entry.now
            (names_upgraded_by upgrade.entry)) }
    {
        let mut pool = self;
        let alloc = pool.alloc;
        let list = pool.take_list();
        seal_list(alloc, list, world, upgrade)
    }
}
