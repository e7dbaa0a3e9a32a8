//! The lines on modified configuration files. The lines are defined in `docs/commands.md`, "`add`
//! and `del`", part "What is reported"; which files are kept, or written beside others, in "What a
//! change does with files", part "Configuration files".
ghost use Rattle.change_outcome.specs.ConfigurationLines.{apk_new_file_line, lines_of_apk_new_and_kept_paths, kept_config_line, path_with_line_by, path_with_line_cmp_by_path};
ghost use Rattle.change_report.specs.Notices.{notice_seen};
ghost use Rattle.base_core.specs.Sorted.{sorted_by};
ghost use Rattle.std.specs.List.{flat_map};
ghost use Rattle.std.specs.Prelude.{◌≡◌, ◌++◌, ◌∷◌, [], map, if◌then◌else◌, IfOk, OnOk};

use base_core::Names;
use own_core::FilePlan;
use report_core::Report;
use std::alloc::{AllocError, Global};

/// A line to be reported on one modified configuration file, before it is sorted and printed.
#[derive(Clone, Copy)]
pub(crate) struct Notice<'p> {
    /// The path of the modified file.
    pub(crate) path: &'p [u8],
    /// True if the modified file is kept although its package is removed; false if a new file is
    /// written beside it, as `PATH.apk-new`.
    pub(crate) is_kept: bool,
}

/// Adds two kinds of lines, in byte order of the paths: one for each path beside which a new file
/// is written, and one for each path at which a modified file is kept.
#[tactic(auto, unfolding(change_outcome::specs::ConfigurationLines::lines_of_apk_new_and_kept_paths))]
pub(crate) fn push_configuration_lines(
    alloc: Global,
    report: &mut Report,
    plan: &FilePlan,
) -> Result<(), AllocError>
    ensures { OnOk result (report.new
        ≡ report.old ++ lines_of_apk_new_and_kept_paths plan.now.aside plan.now.kept) }
{
    let mut notices = Vec::new(alloc);
    push_notices(&mut notices, plan.aside(), false)?;
    push_notices(&mut notices, plan.kept(), true)?;
    sort_notices(&mut notices)?;
    push_lines(report, &notices)?;
    Ok(())
}

/// Appends a notice for each of these paths. `is_kept` says whether the modified file is kept there
/// (true), or a new file is written beside it (false).
fn push_notices<'p>(
    notices: &mut Vec<Notice<'p>>,
    paths: &'p Names,
    is_kept: bool,
) -> Result<(), AllocError>
    // A line for each of these paths is appended: the file is kept, or a new one is written beside
    // it.
    ensures { OnOk result (map notice_seen notices.new.items ≡ map notice_seen notices.old.items
        ++ map (path_with_line_by
        (if is_kept then kept_config_line else apk_new_file_line)) paths.entry.now) }
{
    for i in 0..paths.len() {
        let path = paths.get(i).as_bytes();
        notices.push(Notice { path, is_kept })?;
    }
    Ok(())
}

/// Sorts notices by their paths, in byte order.
fn sort_notices(notices: &mut Vec<Notice<'_>>) -> Result<(), AllocError>
    ensures { OnOk result (map notice_seen notices.new.items
        ≡ sorted_by path_with_line_cmp_by_path (map notice_seen notices.old.items)) }
{
    notices.sort_by(|one, other| one.path.cmp(other.path))?;
    Ok(())
}

/// Adds the lines of notices.
fn push_lines(report: &mut Report, notices: &[Notice<'_>]) -> Result<(), AllocError>
    ensures { OnOk result (report.new
        ≡ report.old ++ flat_map (λ l. l.line) (map notice_seen notices.now)) }
{
    for notice in notices {
        push_line(report, notice)?;
    }
    Ok(())
}

/// Adds the line of one notice.
fn push_line(report: &mut Report, notice: &Notice<'_>) -> Result<(), AllocError>
    ensures { OnOk result (report.new ≡ report.old ++ (notice_seen notice.now).line) }
{
    if notice.is_kept {
        return push_kept_line(report, notice.path);
    }
    push_aside_line(report, notice.path)
}

/// Adds the line that says that a new file is written beside the modified file at this path.
fn push_aside_line(report: &mut Report, path: &[u8]) -> Result<(), AllocError>
    ensures { OnOk result (report.new ≡ report.old ++ apk_new_file_line path.now) }
{
    report.push(path)?;
    report.push(b".apk-new installed; ")?;
    report.push(path)?;
    report.push(b" was changed")?;
    report.push(b"\n")?;
    Ok(())
}

/// Adds the line that says that the modified file at this path is kept.
fn push_kept_line(report: &mut Report, path: &[u8]) -> Result<(), AllocError>
    ensures { OnOk result (report.new ≡ report.old ++ kept_config_line path.now) }
{
    report.push(path)?;
    report.push(b" kept; it was changed")?;
    report.push(b"\n")?;
    Ok(())
}
