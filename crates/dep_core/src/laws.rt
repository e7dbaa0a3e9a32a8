//! Laws (theorems) about the definitions of this crate, for all texts and dependencies. Each is
//! proved as the contract of a function that only calls laws of other crates. The rules are in
//! `docs/formats.md`, "Dependencies", "World" and "Repositories".

ghost use Rattle.std.specs.Prelude.{◌≡◌, ℕ, List, None, Some, Ok, Err, IsTrue, is_ok, map, unwrap_or};
ghost use Rattle.dep_core.specs.Dependency.{Dependency};
ghost use Rattle.dep_core.specs.DependencyText.{IsDependency, dep_text};
ghost use Rattle.dep_core.specs.Reading.{dependency_of};
ghost use Rattle.dep_core.specs.Spelling.{SpellsDependency};
ghost use Rattle.dep_core.specs.Value.{dep_value};
ghost use Rattle.dep_core.specs.ValueReading.{dependency_of_value};
ghost use Rattle.dep_core.specs.World.{IsWorldSortedByName, world_of, world_text};
ghost use Rattle.dep_core.specs.Entries.{IsFirstBadLineOfWorldText, IsSortedWorldOfTextWithoutRepeatedNames, have_different_names, words_in};
ghost use Rattle.dep_core.specs.Repositories.{Repository, repositories_of};
ghost use Rattle.dep_core.specs.RepositoryText.{is_repository_writable_as_line, repositories_text};
ghost use Rattle.std.specs.List.{list_all};

use version_core::versions_have_version_bytes;

/// A text that is read as a dependency is one of the texts of this dependency, by the grammar.
pub fn read_texts_are_spelled()
    ensures { (text : List ℕ) (d : Dependency) → dependency_of text ≡ Some d
        → SpellsDependency text d }
{}

/// Each text of a dependency, by the grammar, is read as this dependency.
pub fn spelled_texts_are_read()
    ensures { (text : List ℕ) (d : Dependency) → SpellsDependency text d
        → dependency_of text ≡ Some d }
{
    // A law that the proof needs; it has no effect at run time.
    versions_have_version_bytes();
}

/// The text that a valid dependency is written as is one of its texts, and is read as this
/// dependency.
pub fn texts_are_read_back()
    // The written text is one of the dependency's texts.
    ensures spelled { (d : Dependency) → IsDependency d → SpellsDependency (dep_text d) d }
    // The written text is read as this dependency.
    ensures read { (d : Dependency) → IsDependency d → dependency_of (dep_text d) ≡ Some d }
{
    // A law that the proof needs; it has no effect at run time.
    versions_have_version_bytes();
}

/// The value that a dependency without tag has in a package's information is read as this
/// dependency. An absent match number counts as 0.
pub fn values_are_read_back()
    ensures { (d : Dependency) → IsDependency d → d.tag ≡ None →
        (let v = dep_value d in
        dependency_of_value v.name v.version (unwrap_or v.matching 0) ≡ Some d) }
{
    // A law that the proof needs; it has no effect at run time.
    versions_have_version_bytes();
}

/// The text that a world is written as is read as that world.
pub fn worlds_are_read_back()
    ensures { (world : List Dependency) → IsWorldSortedByName world
        → world_of (world_text world) ≡ Ok world }
{
    // A law that the proof needs; it has no effect at run time.
    versions_have_version_bytes();
}

/// The world of a text has exactly the dependencies that the words of the text denote, each name
/// once, in byte order.
pub fn worlds_hold_their_words()
    ensures { (text : List ℕ) (world : List Dependency) → world_of text ≡ Ok world
        → IsSortedWorldOfTextWithoutRepeatedNames text world }
{}

/// A text whose words are all dependencies, of different names, is read as a world.
pub fn words_of_different_names_are_a_world()
    ensures { (text : List ℕ) (entries : List Dependency) →
        map dependency_of (words_in text) ≡ map Some entries
        → IsTrue (have_different_names entries) → IsTrue (is_ok (world_of text)) }
{}

/// The line that is reported as bad is the first bad line of the text of a world.
pub fn first_bad_line_is_reported()
    ensures { (text : List ℕ) (line : ℕ) → world_of text ≡ Err line
        → IsFirstBadLineOfWorldText text line }
{}

/// A text that names repositories is read as these repositories, if each of them can be written on
/// a line.
pub fn repositories_are_read_back()
    ensures { (found : List Repository) → IsTrue (list_all is_repository_writable_as_line found) →
        repositories_of (repositories_text found) ≡ Ok found }
{}
