//! Laws: which change (install, upgrade, purge and so on) a package has, and which changes a report
//! has. The rules are in `docs/commands.md`, "`add` and `del`", part "What is reported", and in
//! "`upgrade` and `fix`".

ghost use Rattle.std.specs.Prelude.{◌≡◌, ◌↔◌, ℕ, List, Some, None, map};
ghost use Rattle.std.specs.List.{find};
ghost use Rattle.std.specs.declared.cmp.Ordering.TheVariants.{Less, Equal, Greater};
ghost use Rattle.adb_view.specs.Plain.{Plain};
ghost use Rattle.definition_laws.specs.answers.WhichChange.{AreOldAndRepositoryOneWithValidVersions, HasInstallChange, HasNumberedChangeLines, HasPurgeChange, IsSelected, IsInstalledPackageOfNoRepositorySelected, IsSameVersionAndIdByNonemptyPrefix, WasInstalled, changed_name};
ghost use Rattle.base_core.specs.Listed.{AreSortedDistinctTexts};
ghost use Rattle.base_core.specs.Lists.{IsIn};
ghost use Rattle.tell_core.specs.candidate_core.Candidates.{Candidate};
ghost use Rattle.change_outcome.specs.db_core.Packages.{is_package_named};
ghost use Rattle.tell_core.specs.file_owners.Replaces.{package_version_text};
ghost use Rattle.change_outcome.specs.package_changes.Changes.{Replacement, change_of_name, changes_of, is_candidate_named, candidate_version_text};
ghost use Rattle.report_core.specs.Reports.{Change, Downgrade, Install, Purge, Reinstall, Replace, Upgrade, change_lines};
ghost use Rattle.version_core.specs.Order.{version_cmp};

/// A package is upgraded exactly if the new version is greater, and downgraded exactly if it is
/// less. It is replaced exactly if the versions are equal in order and the candidate is another
/// package, by the text of its version or by its id. A candidate that is the installed package is
/// reinstalled exactly if its name is in `r.again`; otherwise the package is kept.
pub fn the_order_of_versions_decides_the_change()
    // An upgrade: the new version is greater.
    ensures upgrade { (r : Replacement) (name : List ℕ) (pkg : Plain) (c : Candidate)
        → AreOldAndRepositoryOneWithValidVersions r name pkg c
        → (change_of_name r name
        ≡ Some (Upgrade name (package_version_text pkg) (candidate_version_text c)))
        ↔ (version_cmp (package_version_text pkg) (candidate_version_text c) ≡ Less) }
    // A downgrade: the new version is less.
    ensures downgrade { (r : Replacement) (name : List ℕ) (pkg : Plain) (c : Candidate)
        → AreOldAndRepositoryOneWithValidVersions r name pkg c
        → (change_of_name r name
        ≡ Some (Downgrade name (package_version_text pkg) (candidate_version_text c)))
        ↔ (version_cmp (package_version_text pkg) (candidate_version_text c) ≡ Greater) }
    // A replacement: the versions are equal in order, but the version's text or the id differs.
    ensures replace { (r : Replacement) (name : List ℕ) (pkg : Plain) (c : Candidate)
        → AreOldAndRepositoryOneWithValidVersions r name pkg c
        → (change_of_name r name
        ≡ Some (Replace name (package_version_text pkg) (candidate_version_text c)))
        ↔ ((version_cmp (package_version_text pkg) (candidate_version_text c) ≡ Equal)
        × (IsSameVersionAndIdByNonemptyPrefix pkg c → ⊥)) }
    // A reinstallation: the same version and id, and the name is in `r.again`.
    ensures reinstall { (r : Replacement) (name : List ℕ) (pkg : Plain) (c : Candidate)
        → AreOldAndRepositoryOneWithValidVersions r name pkg c
        → (change_of_name r name ≡ Some (Reinstall name (candidate_version_text c)))
        ↔ (IsSameVersionAndIdByNonemptyPrefix pkg c × IsIn name r.again) }
    // No change: the same version and id, and the name is not in `r.again`.
    ensures kept { (r : Replacement) (name : List ℕ) (pkg : Plain) (c : Candidate)
        → AreOldAndRepositoryOneWithValidVersions r name pkg c
        → (change_of_name r name ≡ None)
        ↔ (IsSameVersionAndIdByNonemptyPrefix pkg c × (IsIn name r.again → ⊥)) }
{}

/// If the selected candidate of a name is the installed package itself, which is from no index, the
/// package is reinstalled exactly if its name is in `r.again`. Otherwise it is kept.
pub fn a_package_of_no_index_is_kept()
    // The package is reinstalled exactly if its name is in `r.again`.
    ensures reinstall { (r : Replacement) (name : List ℕ) (c : Candidate)
        → IsInstalledPackageOfNoRepositorySelected r name c
        → (change_of_name r name ≡ Some (Reinstall name (candidate_version_text c)))
        ↔ IsIn name r.again }
    // The package has no change exactly if its name is not in `r.again`.
    ensures kept { (r : Replacement) (name : List ℕ) (c : Candidate)
        → IsInstalledPackageOfNoRepositorySelected r name c
        → (change_of_name r name ≡ None) ↔ (IsIn name r.again → ⊥) }
{}

/// The changes of a report are exactly those of the names, one for each name whose package
/// changes, in byte order of the names.
pub fn each_changed_name_has_one_change_in_order()
    // A change is in the list exactly if it is the change of the name that it has.
    ensures each { (r : Replacement) (change : Change)
        → IsIn change (changes_of r)
        ↔ (change_of_name r (changed_name change) ≡ Some change) }
    // The names of the changes are in byte order, each once.
    ensures order { (r : Replacement)
        → AreSortedDistinctTexts (map changed_name (changes_of r)) }
{}

/// A package is removed exactly if it was installed and no candidate of its name is selected. It is
/// installed exactly if a candidate of its name is selected and no package of this name was
/// installed. A name that is neither installed nor selected has no change.
pub fn a_package_on_one_side_is_installed_or_removed()
    // Removed: the name was installed and is not selected.
    ensures purge { (r : Replacement) (name : List ℕ)
        → HasPurgeChange r name ↔ (WasInstalled r name × (IsSelected r name → ⊥)) }
    // Installed: the name is selected and was not installed.
    ensures install { (r : Replacement) (name : List ℕ)
        → HasInstallChange r name ↔ (IsSelected r name × (WasInstalled r name → ⊥)) }
    // The change `Purge` has the version of the removed package.
    ensures purged_version { (r : Replacement) (name : List ℕ) (pkg : Plain)
        → find (is_package_named name) r.before ≡ Some pkg
        → find (is_candidate_named name) r.selected ≡ None
        → change_of_name r name ≡ Some (Purge name (package_version_text pkg)) }
    // The change `Install` has the version of the candidate.
    ensures installed_version { (r : Replacement) (name : List ℕ) (c : Candidate)
        → find (is_package_named name) r.before ≡ None
        → find (is_candidate_named name) r.selected ≡ Some c
        → change_of_name r name ≡ Some (Install name (candidate_version_text c)) }
    // A name that was not installed and is not selected has no change.
    ensures absent { (r : Replacement) (name : List ℕ)
        → (WasInstalled r name → ⊥) → (IsSelected r name → ⊥) → change_of_name r name ≡ None }
{}

/// A report has one line for each change, in the order of the changes. The line begins with the
/// number of the change, counted from 1, and the number of all changes, as in `(1/3)`.
pub fn each_change_has_one_numbered_line()
    ensures { (changes : List Change) → HasNumberedChangeLines changes (change_lines changes) }
{}
