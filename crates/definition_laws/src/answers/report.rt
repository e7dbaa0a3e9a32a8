//! Laws: the sections of the report of a change, and some of their lines. The rules are in
//! `docs/commands.md`, "`add` and `del`", part "What is reported".

ghost use Rattle.std.specs.Prelude.{List, map, ℕ};
ghost use Rattle.definition_laws.specs.answers.KeptNames.{IsEachNameSelectedAtMostOnce};
ghost use Rattle.definition_laws.specs.answers.ReportSections.{HasSortedConfigurationLines, HasChangeReportSections, HasSimulatedReportSections, IsBytesAndPackageCountLine, installed_size_in_info, member_info};
ghost use Rattle.base_core.specs.Files.{Files};
ghost use Rattle.tell_core.specs.candidate_core.Candidates.{Candidate};
ghost use Rattle.change_outcome.specs.own_core.FileChange.{FileChange};
ghost use Rattle.change_outcome.specs.ChangeOutcome.{ChangeWishes, change_report, member_sum_line};
ghost use Rattle.change_outcome.specs.ConfigurationLines.{lines_of_apk_new_and_kept_paths};
ghost use Rattle.change_outcome.specs.db_core.Members.{Member};
ghost use Rattle.change_outcome.specs.package_changes.Changes.{Replacement};
ghost use Rattle.change_outcome.specs.package_changes.Report.{selected_sum_line, simulated_report};

/// The last line of a report has the sum of the installed sizes of the packages after the change,
/// and how many they are.
pub fn the_sum_counts_what_is_installed()
    // In the report of a simulated change: the sum over the selected candidates.
    ensures simulated { (selected : List Candidate)
        → IsBytesAndPackageCountLine (map (λ
        (c : Candidate). installed_size_in_info c.info) selected)
        (selected_sum_line selected) }
    // In the report of a change that is made: the sum over the members.
    ensures made { (members : List Member)
        → IsBytesAndPackageCountLine (map (λ (m : Member). installed_size_in_info
        (member_info m)) members)
        (member_sum_line members) }
{}

/// A report has one line for each modified configuration file beside which a file `PATH.apk-new` is
/// written (`aside`), and one for each that is kept though its package is removed (`kept`). The
/// lines are in byte order of the paths.
pub fn each_configuration_file_has_one_line()
    ensures { (aside kept : List (List ℕ))
        → HasSortedConfigurationLines aside kept (lines_of_apk_new_and_kept_paths aside kept) }
{}

/// The sections of a report are in this order: the changes, the names that stay, the configuration
/// files, the triggers, the sum. A simulated report has the first two sections and the last.
pub fn a_report_has_its_sections_in_order()
    // The report of a simulated change.
    ensures simulated { (r : Replacement) (to_remove : List (List ℕ))
        → IsEachNameSelectedAtMostOnce r.selected
        → HasSimulatedReportSections r to_remove (simulated_report r to_remove) }
    // The report of a change that is made.
    ensures made { (r : Replacement) (wishes : ChangeWishes) (change : FileChange) (files : Files)
        → IsEachNameSelectedAtMostOnce r.selected
        → HasChangeReportSections r wishes change files (change_report r wishes change files) }
{}
