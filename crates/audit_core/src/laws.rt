//! Laws about the reports of `audit`: that they list exactly the files that differ. The rules are
//! in `docs/commands.md`, "`audit`".

ghost use Rattle.path_clashes.specs.adb_fields.FirstPair.{IsIn};
ghost use Rattle.path_clashes.specs.adb_fields.Repeated.{entries_of_field_at_index};
ghost use Rattle.db_core.specs.adb_schema.SoundContainers.{IsSoundValue};
ghost use Rattle.adb_view.specs.FieldIndexes.{IDB_PACKAGES_INDEX};
ghost use Rattle.adb_view.specs.Plain.{Plain};
ghost use Rattle.adb_view.specs.declared.tables.Which.TheVariants.{Idb};
ghost use Rattle.audit_core.specs.Audit.{FileDifference, audit_report, difference_line};
ghost use Rattle.audit_core.specs.Differences.{AreAsRecorded, IsDifferenceIn, file_differences};
ghost use Rattle.base_core.specs.Files.{Files};
ghost use Rattle.base_core.specs.Listed.{AreSortedDistinctTexts};
ghost use Rattle.package_files.specs.make_info.Reads.{Reads};
ghost use Rattle.std.specs.List.{flat_map};
ghost use Rattle.std.specs.Prelude.{◌≡◌, ◌≤◌, ◌↔◌, [], ℕ, List, map};

/// The report of an audit depends only on the reads from the number `first` on, and not on what the
/// command reads before.
pub fn audits_depend_on_their_own_reads()
    ensures { (read other : Reads) (first : ℕ) (packages : List Plain)
        → ((n : ℕ) (name : List ℕ) → first ≤ n → read n name ≡ other n name)
        → audit_report read first packages ≡ audit_report other first packages }
{}

/// If each read finds the file as it is, the report of an audit has a line for each file that
/// differs from its record: a package lists the file, and it is missing or has other bytes than the
/// entry lists. No other file has a line. The lines of a sound database are in byte order of their
/// paths, and no path has two lines.
pub fn an_audit_reports_just_the_files_that_differ()
    // The report consists of the lines of `file_differences`.
    ensures report { (files : Files) (read : Reads) (first : ℕ) (packages : List Plain)
        → ((n : ℕ) (name : List ℕ) → read n name ≡ files name)
        → audit_report read first packages
        ≡ flat_map difference_line (file_differences files packages) }
    // Each of `file_differences` is a difference of a listed file, and none is left out.
    ensures each { (files : Files) (packages : List Plain) (d : FileDifference)
        → IsIn d (file_differences files packages) ↔ IsDifferenceIn packages files d }
    // For a sound database, `file_differences` has each path at most once, in byte order.
    ensures rising { (files : Files) (database : Plain) → IsSoundValue Idb database
        → AreSortedDistinctTexts (map (λ d. d.path)
        (file_differences files (entries_of_field_at_index IDB_PACKAGES_INDEX database))) }
{}

/// Each read finds the file as it is. Then the report of an audit is empty exactly if each file
/// that a package lists is there, with bytes as its entry lists them.
pub fn an_audit_reports_nothing_if_all_is_as_recorded()
    ensures { (files : Files) (read : Reads) (first : ℕ) (packages : List Plain)
        → ((n : ℕ) (name : List ℕ) → read n name ≡ files name)
        → (audit_report read first packages ≡ []) ↔ AreAsRecorded packages files }
{}
