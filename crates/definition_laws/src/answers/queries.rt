//! Laws: what `list`, `search` and `policy` print. The rules are in `docs/commands.md`, "Queries",
//! "`list`", "`search`" and "`policy`".

ghost use Rattle.std.specs.Prelude.{ℕ, ◌≡◌, ◌++◌, Bool, List, Option};
ghost use Rattle.std.specs.List.{flat_map};
ghost use Rattle.definition_laws.specs.answers.QueryLines.{HasLinesOfSortedAskedCandidates, HasPolicyLinesOfOneVersionOrOfUnversioned, IsInListReportByInstalledFlag, IsSearchHitInRepositoryBySomePattern};
ghost use Rattle.command_core.specs.declared.operands.Operand.{Operand};
ghost use Rattle.dep_core.specs.Repositories.{Repository};
ghost use Rattle.tell_core.specs.candidate_core.Candidates.{Candidate};
ghost use Rattle.query_core.specs.List.{list_line_of_candidate, list_report};
ghost use Rattle.query_core.specs.Order.{printed_version};
ghost use Rattle.query_core.specs.Policy.{policy_report, version_policy, sorted_distinct_versions_of_name};
ghost use Rattle.query_core.specs.Search.{search_report};
ghost use Rattle.report_core.specs.QueryReports.{policy_heading, search_line};

use query_core::{
    a_query_selects_what_passes_its_test, list_prints_what_is_asked_for,
    search_prints_what_is_asked_for,
};

/// `list` prints a line for each candidate that the patterns and `installed_only` ask for, and no
/// other line, in the order in which queries print candidates.
pub fn list_prints_a_line_for_each_candidate_that_is_asked_for()
    ensures { (candidates : List Candidate) (patterns : List Operand) (installed_only : Bool)
        → HasLinesOfSortedAskedCandidates
        (IsInListReportByInstalledFlag patterns installed_only) list_line_of_candidate candidates
        (list_report candidates patterns installed_only) }
{
    // Laws that the proof needs; they have no effect at run time.
    a_query_selects_what_passes_its_test();
    list_prints_what_is_asked_for();
}

/// `search` prints name and version of each candidate that the patterns ask for, and of no other,
/// in the order in which queries print candidates.
pub fn search_prints_a_line_for_each_candidate_that_is_asked_for()
    ensures { (candidates : List Candidate) (patterns : List Operand)
        → HasLinesOfSortedAskedCandidates (IsSearchHitInRepositoryBySomePattern patterns)
        (λ (c : Candidate). search_line c.name (printed_version c.version)) candidates
        (search_report candidates patterns) }
{
    // Laws that the proof needs; they have no effect at run time.
    a_query_selects_what_passes_its_test();
    search_prints_what_is_asked_for();
}

/// `policy` prints a heading for each name, in the order given, and below it each version of the
/// name. Below a version it prints the line of the database if the version is installed. Then it
/// prints a line for each repository that has the version, in the order of the repositories.
pub fn policy_prints_where_each_version_is()
    // For each name: its heading, and then the lines of each of its versions.
    ensures names { (candidates : List Candidate) (repositories : List Repository)
        (names : List Operand) → policy_report candidates repositories names
        ≡ flat_map (λ (o : Operand). policy_heading o.text
        ++ flat_map (version_policy candidates repositories o.text)
        (sorted_distinct_versions_of_name candidates o.text)) names }
    // The lines of one version: its heading, the database, and the repositories that have it.
    ensures places { (candidates : List Candidate) (repositories : List Repository)
        (name : List ℕ) (version : Option (List ℕ))
        → HasPolicyLinesOfOneVersionOrOfUnversioned candidates repositories name version
        (version_policy candidates repositories name version) }
{}
