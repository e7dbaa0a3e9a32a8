//! The dependencies of a package's information: read one by one, and judged if they are not known
//! to obey their rules. The rules are in `docs/formats.md`: "Schemas", tables 1 and 3 (where
//! dependencies are), "Dependencies" (which dependency a name, a version and a match number
//! denote), and "The texts", fields 101 to 103 (the rules in a tested container).
ghost use Rattle.std.specs.Prelude.{◌≡◌, ◌<◌, ◌==◌, true, length, slice_get, Some};
ghost use Rattle.std.specs.Option.{option_map};
ghost use Rattle.adb_schema.specs.adb_fields.ListValue.{list_value};
ghost use Rattle.adb_schema.specs.SoundValues.{ObeysTextAndNumberRulesOfDependency};
ghost use Rattle.adb_schema.specs.Views.{dependency_value};
ghost use Rattle.dep_core.specs.Meets.{dependency};
ghost use Rattle.candidate_core.specs.Candidates.{dependencies_in_list_value, dependency_in};
ghost use Rattle.candidate_core.specs.SoundTexts.{HasSoundEntries};

use adb_schema::{DepView, List};
use dep_core::{Dep, dep_of, dep_of_parts};
use std::marker::Model;

/// A list of dependencies of a package, in the order of its information. Each is read on demand.
/// Indexes count from 0. An entry that is no dependency is left out, and has no index.
#[derive(Drop)]
pub struct Deps<'a> {
    /// The array of the package's information; its entries count from 1, and may be no
    /// dependencies.
    list: List<'a, DepView<'a>>,
    // Whether each entry is known to be a dependency.
    are_sound: bool,
}

impl<'a> Model for Deps<'a> {
    ghost use Rattle.std.specs.Prelude.{◌≡◌, true, List as Items};
    ghost use Rattle.adb_schema.specs.adb_fields.ListValue.{list_value};
    ghost use Rattle.dep_core.specs.Dependency.{Dependency};
    ghost use Rattle.candidate_core.specs.Candidates.{dependencies_in_list_value};
    ghost use Rattle.candidate_core.specs.SoundTexts.{HasSoundEntries};

    ghost Value = { Items Dependency };

    // The value is the list of the dependencies, without the entries that are none.
    ghost view = { λ deps. dependencies_in_list_value (list_value deps.list) };

    // If the entries are known to be dependencies, each of them is one.
    ghost invariant = { λ deps. deps.are_sound ≡ true → HasSoundEntries (list_value deps.list) };
}

impl<'a> Deps<'a> {
    /// The dependencies of a list of a package's information. An entry that is no dependency is
    /// left out. `are_sound` says whether each entry is known to be a dependency.
    pub fn of(list: List<'a, DepView<'a>>, are_sound: bool) -> Deps<'a>
        // If the entries are said to be dependencies, each of them is one.
        requires { are_sound ≡ true → HasSoundEntries (list_value list) }
        ensures { result ≡ dependencies_in_list_value (list_value list.entry) }
    {
        Deps { list, are_sound }
    }

    /// How many dependencies the list has.
    pub fn len(&self) -> usize
        ensures { result ≡ length self.now }
    {
        if self.are_sound {
            self.list.len()
        } else {
            count_sound(&self.list)
        }
    }

    /// Whether the list has no dependency.
    pub fn is_empty(&self) -> bool
        ensures { result ≡ (length self.now == 0) }
    {
        self.len() == 0
    }

    /// The dependency at a place of the list, counted from 0.
    pub fn get(&self, place: usize) -> Dep<'a>
        requires { place < length self.now }
        ensures { slice_get self.now place ≡ Some (dependency result) }
    {
        // An array has less than 2^32 entries.
        let _count = self.list.len();
        if self.are_sound {
            read_sound(&self.list.get(place + 1))
        } else {
            read_judged(&self.list, place)
        }
    }
}

/// The dependency of an entry that is known to be one, read without testing its texts.
#[tactic(auto, unfolding(dep_core::specs::ValueReading::dependency_of_value))]
pub(crate) fn read_sound<'a>(view: &DepView<'a>) -> Dep<'a>
    requires { ObeysTextAndNumberRulesOfDependency (dependency_value view.now) }
    ensures { dependency_in (dependency_value view.entry.now) ≡ Some (dependency result) }
{
    match dep_of_parts(view.name(), view.version(), view.matching()) {
        Some(dep) => dep,
        // An entry that is sound is a dependency.
        None => unreachable!(),
    }
}

/// The dependency of an entry, if it is one: its name, version and match number are tested.
pub(crate) fn read_if_sound<'a>(view: &DepView<'a>) -> Option<Dep<'a>>
    ensures { option_map dependency result ≡ dependency_in (dependency_value view.now) }
{
    dep_of(view.name(), view.version(), view.matching())
}

// How many entries of a list are dependencies; each is tested.
fn count_sound<'a>(list: &List<'a, DepView<'a>>) -> usize
    ensures { result ≡ length (dependencies_in_list_value (list_value list.now)) }
{
    let mut count = 0;
    for i in 0..list.len() {
        if let Some(_) = read_if_sound(&list.get(i + 1)) {
            count += 1;
        }
    }
    count
}

// The dependency that has `place` other dependencies of the list before it; each entry up to it is
// tested.
fn read_judged<'a>(list: &List<'a, DepView<'a>>, place: usize) -> Dep<'a>
    requires { place < length (dependencies_in_list_value (list_value list.now)) }
    ensures { slice_get (dependencies_in_list_value (list_value list.now)) place
        ≡ Some (dependency result) }
{
    // The number of dependencies so far.
    let mut passed = 0;
    for i in 0..list.len() {
        if let Some(dep) = read_if_sound(&list.get(i + 1)) {
            if passed == place {
                return dep;
            }
            passed += 1;
        }
    }
    // There are more dependencies than `place`, by the contract.
    unreachable!()
}
