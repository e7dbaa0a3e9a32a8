//! The list of candidates under construction: the packages of each index, then the installed ones
//! that no index has. The rules are in `docs/selection.md`, "What there is to choose from": the
//! order of the list, which candidate is the installed package, and the most candidates.
ghost use Rattle.std.specs.Prelude.{◌≡◌, ◌<◌, ◌+◌, ℕ, [], ◌∷◌, ◌++◌, length, true, None, Some, slice_get, OnOk, IfErr};
ghost use Rattle.std.specs.List.{list_any};
ghost use Rattle.adb_schema.specs.Views.{info_value};
ghost use Rattle.adb_schema.specs.adb_fields.Fields.{are_all_sound, array_at};
ghost use Rattle.adb_view.specs.declared.tables.Kind.TheVariants as Kinds;
ghost use Rattle.adb_view.specs.declared.tables.Which.TheVariants as Tables;
ghost use Rattle.adb_view.specs.Adb.{payload_of};
ghost use Rattle.adb_view.specs.Entries.{array_entries};
ghost use Rattle.adb_view.specs.Values.{count_of, entries_in, entry_at_index};
ghost use Rattle.candidate_core.specs.Candidates.{marked_installed_where_same_as, candidate_of, is_repository_package_same_as_installed, with_installed_marked_or_added};
ghost use Rattle.candidate_core.specs.Options.{places_offering};
ghost use Rattle.candidate_core.specs.CandidateList.{IsCandidateList, is_installed_package_at, marked_installed_if_same_at};
ghost use Rattle.candidate_core.specs.PackageWords.{IsPackageWordOf};
ghost use Rattle.candidate_core.specs.Packages.{candidate_in_source, candidates_of_packages, candidates_of_source};
ghost use Rattle.candidate_core.specs.SoundTexts.{HasSoundTexts};
ghost use Rattle.candidate_core.specs.Values.{IsPoolFault};

use crate::candidate::{CandId, Details};
use crate::judging::has_sound_texts;
use crate::packages::{Packages, Source};
use crate::table::Table;
use adb_schema::PkgInfo;
use adb_view::{Arr, Val, entry_word};
use std::alloc::{AllocError, Global};

/// Why a package was not added to a pool.
#[derive(Clone, Copy)]
pub enum PoolFault {
    /// There would be more candidates than a pool may have. `count` is `MOST_CANDIDATES` plus 1,
    /// the first count that is too great.
    TooMany { count: u64 },
    /// Out of memory.
    Memory,
}

impl From<AllocError> for PoolFault {
    ghost use Rattle.std.specs.Prelude.{◌≡◌};
    ghost use Rattle.candidate_core.specs.declared.candidate_list.PoolFault.TheVariants.{Memory};

    // A lack of memory becomes the fault `Memory`.
    ghost from_gives = { λ _ fault. fault ≡ Memory };

    // A lack of memory, as a fault of the pool.
    fn from(_: AllocError) -> PoolFault {
        PoolFault::Memory
    }
}

/// The most candidates of a pool (`docs/selection.md`, "What there is to choose from").
pub const MOST_CANDIDATES: usize = 65536;

/// The candidates so far, and a table that leads from each name to the candidates that offer it.
#[derive(Drop)]
pub struct CandidateList<'a> {
    /// The packages that the candidates are, in the order of the list.
    pub packages: Packages<'a>,
    /// For each name, the places of the candidates that offer it.
    pub table: Table<'a>,
}

impl<'a> CandidateList<'a> {
    /// A list without candidates.
    pub fn new(alloc: Global) -> CandidateList<'a>
        ensures list { IsCandidateList result }
        ensures none { candidates_of_packages result.packages ≡ [] }
    {
        CandidateList {
            packages: Packages::new(alloc),
            table: Table::new(alloc),
        }
    }

    // Appends the package with this word in the source, which has the index `source_place` in the
    // list of sources. After an error the list may only be dropped, since the table may then have a
    // place without a package.
    fn push(
        &mut self,
        source: &Source<'a>,
        source_place: u32,
        word: Val,
        installed: bool,
    ) -> Result<(), PoolFault>
        requires list { IsCandidateList self.old }
        // The source is the one at this index.
        requires source { slice_get self.old.packages.sources.items source_place ≡ Some source.now }
        requires word { IsPackageWordOf source.now word }
        ensures list { OnOk result (IsCandidateList self.new) }
        ensures sources { OnOk result (self.new.packages.sources ≡ self.old.packages.sources) }
        // The candidate of this word in the source is appended.
        ensures pushed { OnOk result (candidates_of_packages self.new.packages
            ≡ candidates_of_packages self.old.packages
            ++ candidate_in_source (Some source.now) word installed ∷ []) }
        // A refusal for too many candidates is right: one more would exceed the limit.
        ensures fault { IfErr result (λ fault. IsPoolFault fault
            (length (candidates_of_packages self.old.packages) + 1)) }
    {
        let place = self.packages.len();
        if place >= MOST_CANDIDATES {
            return Err(PoolFault::TooMany {
                count: place as u64 + 1,
            });
        }
        let id = CandId {
            place: place as u32,
        };
        self.table
            .add_all(&Details::of(source, word, installed), id)?;
        self.packages.push(source_place, word, installed)?;
        Ok(())
    }

    /// Appends the packages of an index, the source; `packages` are their words (32-bit values).
    #[tactic(auto, using(adb_fields::proofs::FieldReads::entry_sound))]
    pub fn push_all(&mut self, source: Source<'a>, packages: Arr<'a>) -> Result<(), PoolFault>
        requires list { IsCandidateList self.old }
        // Each word can be read as the information of a package.
        requires sound { are_all_sound (payload_of source.adb) (Kinds.Obj Tables.PkgInfo)
            (array_entries packages) ≡ true }
        // If the source's texts obey their rules, so do those of each of these packages.
        requires texts { source.has_sound_texts ≡ true → (i : ℕ)
            → i < count_of (entries_in (array_at (payload_of source.adb)
            (Kinds.Obj Tables.PkgInfo) (array_entries packages))) → HasSoundTexts
            (entry_at_index (array_at (payload_of source.adb) (Kinds.Obj Tables.PkgInfo)
            (array_entries packages)) i) }
        ensures list { OnOk result (IsCandidateList self.new) }
        // The packages of the array are appended, in their order.
        ensures pushed { OnOk result (candidates_of_packages self.new.packages
            ≡ candidates_of_packages self.old.packages ++ candidates_of_source source.entry
            (entries_in (array_at (payload_of source.entry.adb) (Kinds.Obj Tables.PkgInfo)
            (array_entries packages.entry)))) }
        // A refusal for too many candidates is right for the number of candidates that the list
        // would have.
        ensures fault { IfErr result (λ fault. IsPoolFault fault
            (length (candidates_of_packages self.old.packages) + count_of (entries_in
            (array_at (payload_of source.entry.adb) (Kinds.Obj Tables.PkgInfo)
            (array_entries packages.entry))))) }
    {
        let source_place = self.packages.add_source(source)?;
        for i in 0..packages.len() {
            let word = entry_word(packages, i);
            match self.push(&source, source_place, word, false) {
                Ok(()) => {}
                Err(fault) => return Err(fault),
            }
        }
        Ok(())
    }

    /// Adds an installed package, or marks the candidates that are the same package as installed.
    pub fn push_installed(&mut self, alloc: Global, info: PkgInfo<'a>) -> Result<(), PoolFault>
        requires { IsCandidateList self.old }
        ensures list { OnOk result (IsCandidateList self.new) }
        // The list then has the installed package: the candidates that are the same package are
        // marked, or the installed package is a candidate of its own.
        ensures pushed { OnOk result (candidates_of_packages self.new.packages
            ≡ with_installed_marked_or_added
            (candidates_of_packages self.old.packages)
            (candidate_of (info_value info.entry) None None true)) }
        // A refusal for too many candidates is right for the number of candidates that the list
        // would have.
        ensures fault { IfErr result (λ fault. IsPoolFault fault (length
            (with_installed_marked_or_added
            (candidates_of_packages self.old.packages)
            (candidate_of (info_value info.entry) None None true)))) }
    {
        let source = Source {
            adb: info.adb(),
            repo: None,
            tag: None,
            has_sound_texts: has_sound_texts(alloc, info)?,
        };
        if self.mark_same(&Details::of(&source, info.word(), true)) {
            return Ok(());
        }
        let source_place = self.packages.add_source(source)?;
        self.push(&source, source_place, info.word(), true)
    }

    // Marks as installed each candidate that is the same package as an installed one, and returns
    // whether there is such a candidate.
    fn mark_same(&mut self, installed: &Details<'a>) -> bool
        requires { IsCandidateList self.old }
        // The list is still one of candidates. The result says whether one of them is the installed
        // package, and each such candidate is marked.
        ensures list { IsCandidateList self.new }
        ensures some { result ≡ list_any (is_repository_package_same_as_installed installed.now)
            (candidates_of_packages self.old.packages) }
        ensures same { candidates_of_packages self.new.packages ≡ marked_installed_where_same_as
            installed.now (candidates_of_packages self.old.packages) }
    {
        mark_among(
            &mut self.packages,
            self.table.get(installed.name()),
            installed,
        )
    }
}

// Of the candidates at the places `ids`, marks as installed each one that is the same package as
// the installed one. Returns whether there is such a candidate.
fn mark_among<'a>(packages: &mut Packages<'a>, ids: &[CandId], installed: &Details<'a>) -> bool
    // The places are those of all candidates that offer the installed package's name.
    requires { ids.now
        ≡ places_offering installed.now.name (candidates_of_packages packages.old) }
    ensures some { result ≡ list_any (is_repository_package_same_as_installed installed.now)
        (candidates_of_packages packages.old) }
    ensures same { candidates_of_packages packages.new
        ≡ marked_installed_where_same_as installed.now
        (candidates_of_packages packages.old) }
{
    let mut found = false;
    for id in ids {
        found |= mark_one(packages, *id, installed);
    }
    found
}

// Marks the candidate at a place as installed if it is the same package as the installed one.
// Returns whether the two are the same package.
fn mark_one<'a>(packages: &mut Packages<'a>, id: CandId, installed: &Details<'a>) -> bool
    requires { id < length (candidates_of_packages packages.old) }
    ensures same { result
        ≡ is_installed_package_at installed.now (candidates_of_packages packages.old) id }
    ensures marked { candidates_of_packages packages.new
        ≡ marked_installed_if_same_at installed.now id (candidates_of_packages packages.old) }
{
    let place = id.place as usize;
    if !packages
        .get(place)
        .is_repository_package_same_as_installed(installed)
    {
        return false;
    }
    packages.mark_installed(place);
    true
}
