//! Needs, the names that a command upgrades, and the candidates that may meet a need. The rules are
//! in `docs/selection.md`: "What satisfies world", 1 and 4 (needs), and "Which selection is taken"
//! (the order of needs; key 4 for the names that a command upgrades).
ghost use Rattle.std.specs.Prelude.{◌≡◌, ◌<◌, ◌==◌, length, slice_get, Some};
ghost use Rattle.candidate_core.specs.Candidates.{need_name};
ghost use Rattle.candidate_core.specs.Values.{need_of_ref};

use crate::candidate::CandId;
use crate::matches::is_long;
use base_core::Words;
use dep_core::Dep;
use std::marker::Model;

/// A need: a dependency or a name that must be met. This type owns the dependency, whose texts are
/// borrowed.
#[derive(Drop)]
pub enum Need<'a> {
    /// An entry of world, or a dependency of a candidate.
    Entry(Dep<'a>),
    /// The name of a package whose install-if applies.
    Named(&'a [u8]),
}

/// A need, as `Need`, but with a borrowed dependency.
#[derive(Clone, Copy)]
pub enum NeedRef<'a> {
    /// An entry of world, or a dependency of a candidate.
    Entry(&'a Dep<'a>),
    /// The name of a package whose install-if applies.
    Named(&'a [u8]),
}

impl<'a> NeedRef<'a> {
    /// The name of the need.
    pub fn name(&self) -> &'a [u8]
        ensures { result.now ≡ need_name (need_of_ref self.now) }
    {
        match self {
            NeedRef::Entry(dep) => dep.name,
            NeedRef::Named(name) => name,
        }
    }

    /// Whether the need has a long version, so that comparing others with it may take long.
    pub fn has_long_version(&self) -> bool {
        match self {
            NeedRef::Entry(dep) => is_long(&dep.version),
            NeedRef::Named(_) => false,
        }
    }
}

/// The names that a command upgrades. An installed candidate of such a name is not preferred to the
/// others.
#[derive(Clone, Copy)]
pub enum Upgrade<'a> {
    /// No name: the command is `add`, `del` or `fix`.
    Nothing,
    /// Every name: the command is `upgrade` without names.
    All,
    /// The names given to `upgrade`.
    Listed(&'a Words),
}

/// The options of a need: the candidates that may be selected and meet it, best first.
#[derive(Drop)]
pub struct Options {
    /// The places of the candidates, the best first.
    ids: Vec<CandId>,
}

impl Model for Options {
    ghost use Rattle.std.specs.Prelude.{ℕ, List};

    ghost Value = { List ℕ };

    // The value is the list of the places, the best first.
    ghost view = { λ options. options.ids.items };
}

impl Options {
    /// The options at these places, which the caller has sorted.
    pub fn of(ids: Vec<CandId>) -> Options
        ensures { result ≡ ids.items }
    {
        Options { ids }
    }

    /// How many options there are.
    pub fn len(&self) -> usize
        ensures { result ≡ length self.now }
    {
        self.ids.len()
    }

    /// Whether there is no option.
    pub fn is_empty(&self) -> bool
        ensures { result ≡ (length self.now == 0) }
    {
        self.ids.is_empty()
    }

    /// The option at an index, counted from 0; the best has index 0.
    pub fn get(&self, i: usize) -> CandId
        requires { i < length self.now }
        ensures { slice_get self.now i ≡ Some result }
    {
        self.ids[i]
    }

    /// The places of the options, the best first; the caller then owns the list.
    pub fn into_ids(self) -> Vec<CandId>
        ensures { result.items ≡ self }
    {
        self.ids
    }
}
