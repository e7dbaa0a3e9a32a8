//! The trigger of a package: whether it has a script, and which folders its patterns match. The
//! rule is in `docs/commands.md`, "`add` and `del`", part "Which triggers are due"; the fields in
//! `docs/formats.md`, "Schemas", tables 6 and 7.
//!
//! The parameters `_mark` serve only the borrow checker: it does not know the parts of a view that
//! is made and lent in a function unless the signature names the view.
ghost use Rattle.change_outcome.specs.adb_fields.ListValue.{list_value};
ghost use Rattle.change_outcome.specs.adb_fields.Repeated.{package_name};
ghost use Rattle.change_outcome.specs.adb_schema.Views.{package_value};
ghost use Rattle.adb_view.specs.Values.{count_of, entries_in, entry_at_index, text_in};
ghost use Rattle.change_outcome.specs.PackageFiles.{has_script_with_number};
ghost use Rattle.report_core.specs.Numbers.{TRIGGER_SCRIPT};
ghost use Rattle.change_outcome.specs.Triggers.{is_folder_matched_by_pattern, watches_folder};
ghost use Rattle.std.specs.Prelude.{◌≡◌, ◌<◌};

use crate::pattern::is_folder_matched_by_pattern;
use change_outcome::{List, PackageView};
use std::marker::PhantomData;

/// The name of a package, which its view lends.
pub(crate) fn name_of<'a>(pkg: &PackageView<'a>, _mark: PhantomData<PackageView<'a>>) -> &'a [u8]
    ensures { result.now ≡ package_name (package_value pkg.now) }
{
    let info = pkg.info();
    info.name()
}

/// Whether a package has a trigger script; a script without bytes counts as none.
pub(crate) fn has_trigger_script<'a>(
    pkg: &PackageView<'a>,
    _mark: PhantomData<PackageView<'a>>,
) -> bool
    ensures { result ≡ has_script_with_number (package_value pkg.now) TRIGGER_SCRIPT }
{
    let scripts = pkg.scripts();
    !scripts.trigger().is_empty()
}

/// Whether one of the patterns of a package matches a folder.
pub(crate) fn watches_folder(pkg: &PackageView<'_>, folder: &[u8]) -> bool
    ensures { result ≡ watches_folder (package_value pkg.now) folder.now }
{
    let patterns = pkg.triggers();
    for i in 0..patterns.len() {
        if is_matched_at(&patterns, i, folder) {
            return true;
        }
    }
    false
}

/// Whether the pattern with index i, counted from 0, matches a folder.
fn is_matched_at<'a>(patterns: &List<'a, &'a [u8]>, i: usize, folder: &[u8]) -> bool
    // `i` is below the number of patterns.
    requires { i < count_of (entries_in (list_value patterns.now)) }
    ensures { result
        ≡ is_folder_matched_by_pattern folder.now (text_in (entry_at_index
        (list_value patterns.now) i)) }
{
    if i >= patterns.len() {
        unreachable!();
    }
    is_folder_matched_by_pattern(folder, patterns.get(i + 1))
}
