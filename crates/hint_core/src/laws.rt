//! Laws: hints are true, and a command is warned of exactly those tags that no repository has. The
//! rules are in `docs/commands.md`, "Hints" and "Warnings".
ghost use Rattle.std.specs.Prelude.{◌≡◌, ℕ, List, [], Contains, Option, Some};
ghost use Rattle.dep_core.specs.Repositories.{Repository};
ghost use Rattle.report_core.specs.declared.refusal.Refusal.{Refusal};
ghost use Rattle.hint_core.specs.Hints.{hints_by_words_and_subject_file};
ghost use Rattle.hint_core.specs.Truths.{IsHintTrueBySubjectFile};
ghost use Rattle.hint_core.specs.Warnings.{unknown_tag_line, warning_if_tag_unknown};

/// Both hints of a refusal, on its subject and on its cause, are true of the words and of the file
/// that the refusal is about.
pub fn hints_are_so()
    // The hint on what the refusal is about is true.
    ensures subject { (words : List (List ℕ)) (refusal : Refusal) (found : Option (List ℕ))
        → IsHintTrueBySubjectFile words refusal found
        (hints_by_words_and_subject_file words refusal found).subject }
    // The hint on the cause of the refusal is true.
    ensures cause { (words : List (List ℕ)) (refusal : Refusal) (found : Option (List ℕ))
        → IsHintTrueBySubjectFile words refusal found
        (hints_by_words_and_subject_file words refusal found).cause }
{}

/// A tag is warned of if no repository has it, and not if one has it.
pub fn tags_without_a_repository_are_warned_of()
    // No repository has the tag: the warning is its line.
    ensures none { (repositories : List Repository) (tag : List ℕ)
        → ((r : Repository) → Contains repositories r → r.tag ≡ Some tag → ⊥)
        → warning_if_tag_unknown repositories (Some tag) ≡ unknown_tag_line tag }
    // A repository has the tag: there is no warning.
    ensures one { (repositories : List Repository) (tag : List ℕ) (r : Repository)
        → Contains repositories r → r.tag ≡ Some tag
        → warning_if_tag_unknown repositories (Some tag) ≡ [] }
{}
