//! The command `audit`, which compares each file that the packages of a database list with its
//! record (the path, and the package's entry of the file). The rules are in `docs/commands.md`,
//! "`audit`".

ghost use Rattle.audit_core.specs.Audit.{audit_report, path_difference_if_any, difference_from_entry, difference_line, difference_text, differences_from};
ghost use Rattle.audit_core.specs.Seen.{difference_for_comparison, record_seen};
ghost use Rattle.base_core.specs.Calls.{IfObservable};
ghost use Rattle.base_core.specs.Name.{IsName};
ghost use Rattle.base_core.specs.Read.{OnlyReads};
ghost use Rattle.base_core.specs.Tree.{files_of};
ghost use Rattle.db_core.specs.Seen.{packages_of};
ghost use Rattle.package_files.specs.Runs.{HoldsOfSomeReadsOfTree};
ghost use Rattle.report_core.specs.Reports.{report_line};
ghost use Rattle.std.specs.List.{flat_map};
ghost use Rattle.std.specs.Prelude.{◌≡◌, ◌++◌, ℕ, List, Option, All, IfOk, OnOk, map};

use crate::records::{Record, records_by_path};
use base_core::{Name, Text, Tree, TreeFault};
use db_core::{Db, PIECE_LEN};
use file_guard::{Comparison, compare_file_in, listed_file};
use path_clashes::path_bytes;
use std::alloc::{AllocError, Global};

/// How a file differs from its record.
#[derive(Clone, Copy, Debug, PartialEq, Eq)]
pub enum Difference {
    /// There is no file under the path.
    Missing,
    /// The file has other bytes than its record lists.
    Changed,
}

/// Compares each file that the packages of a database list with its record, and reports the files
/// that differ, in byte order of their paths: `X PATH` for a missing file, `U PATH` for a file with
/// other bytes. Each file is read once, in pieces of 65,536 bytes. The tree is not changed,
/// whatever the answer is. The memory has a few machine words for each listed file, and the report.
///
/// # Errors
///
/// `Disk` if a call on the tree failed, `Memory` if memory ran out.
pub fn audit<T: Tree>(alloc: Global, db: &Db<'_>, tree: &mut T) -> Result<Text, TreeFault>
    // On Ok, for each number `first`, there are results of reads, numbered from `first` on, by
    // which the definition gives this report. If the tree is observable, the reads find its files.
    ensures report { (first : ℕ) → HoldsOfSomeReadsOfTree (T.history tree.old) (λ read.
        IfOk result (λ report. report ≡ audit_report read first (packages_of db.now))) }
    // The tree is only read. A failed call on it is reported with its cause.
    ensures tree { OnlyReads TreeFault.Disk (T.history tree.old) (T.history tree.new)
        (T.counts tree.old) (T.counts tree.new) result }
{
    // A law that the proof needs; it computes nothing.
    db.listed_paths_are_names();
    let records = records_by_path(alloc, db)?;
    let report = audit_records(alloc, &records, tree)?;
    Ok(Text::from_vec(report))
}

// The lines of the files that differ from their records, in the order of the records.
fn audit_records<T: Tree>(
    alloc: Global,
    records: &[Record<'_>],
    tree: &mut T,
) -> Result<Vec<u8>, TreeFault>
    // The path of each record is a valid name.
    requires { All (λ r. IsName r.path) (map record_seen records.now) }
    // On Ok, the report has a line for each record whose file differs, by results of reads as in
    // `audit`.
    ensures report { (first : ℕ) → HoldsOfSomeReadsOfTree (T.history tree.old) (λ read.
        IfOk result (λ report. report.items ≡ flat_map difference_line
        (differences_from read first (map record_seen records.now)))) }
    // The tree is only read. A failed call on it is reported with its cause.
    ensures tree { OnlyReads TreeFault.Disk (T.history tree.old) (T.history tree.new)
        (T.counts tree.old) (T.counts tree.new) result }
{
    let mut report = Vec::new(alloc);
    // All files are read into one buffer. To zero a new buffer takes longer than to read a small
    // file.
    let mut piece = [0; PIECE_LEN];
    for record in records {
        audit_record(alloc, &mut report, record, tree, &mut piece)?;
    }
    Ok(report)
}

// Adds the line of a file, if the file differs from its record. The file is read into the buffer
// `piece`, whose bytes before do not matter.
fn audit_record<T: Tree>(
    alloc: Global,
    report: &mut Vec<u8>,
    record: &Record<'_>,
    tree: &mut T,
    piece: &mut [u8; PIECE_LEN],
) -> Result<(), TreeFault>
    // The path of the record is a valid name.
    requires { IsName (record_seen record.now).path }
    // On Ok, a line is appended if the file `found` differs from the record. If the tree is
    // observable, `found` is the file under the path in the record, or None if there is none.
    ensures line { (found : Option (List ℕ))
        × IfObservable (T.history tree.old)
        (λ v. found ≡ files_of v (record_seen record.now).path)
        × OnOk result (report.new.items ≡ report.old.items ++ flat_map difference_line
        (path_difference_if_any (record_seen record.now).path
        (difference_from_entry (record_seen record.now).entry found))) }
    // The tree is only read. A failed call on it is reported with its cause.
    ensures tree { OnlyReads TreeFault.Disk (T.history tree.old) (T.history tree.new)
        (T.counts tree.old) (T.counts tree.new) result }
{
    let path = path_bytes(alloc, &record.path)?;
    let name = Name::of(alloc, &path)?;
    let listed = listed_file(&record.file);
    let found = compare_file_in(tree, &name, Some(listed), None, piece)?;
    if let Some(difference) = difference_for_comparison(found) {
        push_difference(report, difference, &path)?;
    }
    Ok(())
}

// How a file differs from its record; None if it does not differ. `found` is how the file compares
// with the entry in the record, or None if there is no file.
fn difference_for_comparison(found: Option<Comparison>) -> Option<Difference>
    ensures { result ≡ difference_for_comparison found }
{
    match found {
        None => Some(Difference::Missing),
        Some(comparison) if comparison.as_new => None,
        Some(_) => Some(Difference::Changed),
    }
}

// Adds the line of a file that differs.
fn push_difference(
    report: &mut Vec<u8>,
    difference: Difference,
    path: &[u8],
) -> Result<(), AllocError>
    // On Ok, the text of the definition is appended.
    ensures { OnOk result (report.new.items
        ≡ report.old.items ++ report_line (difference_text difference path.now)) }
{
    // The letter and the space before the path.
    let mark: &[u8] = match difference {
        Difference::Missing => b"X ",
        Difference::Changed => b"U ",
    };
    report.extend_from_slice(mark)?;
    report.extend_from_slice(path)?;
    report.push(b'\n')?;
    Ok(())
}
