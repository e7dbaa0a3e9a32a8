//! Laws: which scripts of a package have text, and which of them the refusal of a change names. The
//! rules are in `docs/commands.md`, "`add` and `del`", part "What is refused".

ghost use Rattle.std.specs.Prelude.{◌≡◌, ◌≢◌, ◌↔◌, ℕ, List, [], Some, None, codes, true, false};
ghost use Rattle.adb_view.specs.Plain.{Plain};
ghost use Rattle.definition_laws.specs.answers.FirstScripts.{IsFirstScriptRunByChange, IsScriptNumberRunByChange};
ghost use Rattle.definition_laws.specs.answers.ScriptTexts.{IsFirstScriptNumberWithText, script_text_by_name, script_text_by_number};
ghost use Rattle.base_core.specs.Lists.{IsIn};
ghost use Rattle.change_outcome.specs.PackageFiles.{first_script_number_of_package, has_script_with_number, scripts_of_change};
ghost use Rattle.report_core.specs.Numbers.{POST_DEINSTALL_SCRIPT, POST_INSTALL_SCRIPT, POST_UPGRADE_SCRIPT, PRE_DEINSTALL_SCRIPT, PRE_INSTALL_SCRIPT, PRE_UPGRADE_SCRIPT, TRIGGER_SCRIPT};
ghost use Rattle.report_core.specs.Reports.{Change};

/// Of the scripts of a package that a change would run, the refusal names that with the smallest
/// number; no script is named exactly if the package has none of them.
pub fn the_first_script_by_number_is_named()
    // A script is named exactly if it is the first that the package has and the change would run.
    ensures named { (change : Change) (pkg : Plain) (n : ℕ)
        → (first_script_number_of_package pkg (scripts_of_change change) ≡ Some n)
        ↔ IsFirstScriptRunByChange change pkg n }
    // No script is named exactly if the package has none that the change would run.
    ensures none { (change : Change) (pkg : Plain)
        → (first_script_number_of_package pkg (scripts_of_change change) ≡ None)
        ↔ ((n : ℕ) → IsScriptNumberRunByChange change n → has_script_with_number pkg n ≡ false) }
{}

/// A package has a script exactly if the script's text has at least one byte. Each of the seven
/// numbers of scripts belongs to the field with the script's name.
pub fn a_script_is_run_only_if_it_has_text()
    // For any number: the package has the script exactly if its text is not empty.
    ensures each { (pkg : Plain) (number : ℕ)
        → (has_script_with_number pkg number ≡ true) ↔ (script_text_by_number pkg number ≢ []) }
    // A package has a trigger script exactly if the text under the name `trigger` is not empty.
    ensures trigger { (pkg : Plain) → (has_script_with_number pkg TRIGGER_SCRIPT ≡ true)
        ↔ (script_text_by_name pkg (codes "trigger") ≢ []) }
    // The same of the script `pre-install`.
    ensures pre_install { (pkg : Plain) → (has_script_with_number pkg PRE_INSTALL_SCRIPT ≡ true)
        ↔ (script_text_by_name pkg (codes "pre-install") ≢ []) }
    // The same of the script `post-install`.
    ensures post_install { (pkg : Plain) → (has_script_with_number pkg POST_INSTALL_SCRIPT ≡ true)
        ↔ (script_text_by_name pkg (codes "post-install") ≢ []) }
    // The same of the script `pre-deinstall`.
    ensures pre_deinstall { (pkg : Plain) → (has_script_with_number pkg PRE_DEINSTALL_SCRIPT ≡ true)
        ↔ (script_text_by_name pkg (codes "pre-deinstall") ≢ []) }
    // The same of the script `post-deinstall`.
    ensures post_deinstall { (pkg : Plain) → (has_script_with_number pkg POST_DEINSTALL_SCRIPT
        ≡ true)
        ↔ (script_text_by_name pkg (codes "post-deinstall") ≢ []) }
    // The same of the script `pre-upgrade`.
    ensures pre_upgrade { (pkg : Plain) → (has_script_with_number pkg PRE_UPGRADE_SCRIPT ≡ true)
        ↔ (script_text_by_name pkg (codes "pre-upgrade") ≢ []) }
    // The same of the script `post-upgrade`.
    ensures post_upgrade { (pkg : Plain) → (has_script_with_number pkg POST_UPGRADE_SCRIPT ≡ true)
        ↔ (script_text_by_name pkg (codes "post-upgrade") ≢ []) }
{}

/// `first_script_number_of_package` takes, of a list of numbers of scripts, the first whose script
/// has text.
pub fn the_first_script_that_has_text_is_taken()
    // A number is taken exactly if it is the first of the list whose script has text.
    ensures first { (pkg : Plain) (numbers : List ℕ) (number : ℕ)
        → (first_script_number_of_package pkg numbers ≡ Some number)
        ↔ IsFirstScriptNumberWithText pkg numbers number }
    // None is taken exactly if no script of the list has text.
    ensures none { (pkg : Plain) (numbers : List ℕ)
        → (first_script_number_of_package pkg numbers ≡ None)
        ↔ ((m : ℕ) → IsIn m numbers → script_text_by_number pkg m ≡ []) }
{}
