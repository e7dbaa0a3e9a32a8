//! `audit` and `manifest` (apk(8)): the installed files that differ from their records, and the
//! digests of the files of packages.
//!
//! The contract of `audit` cites `Audit` of `specs/`, and that of `manifest` cites `Manifest`. Both
//! use `Records`: the path and the entry of each file that a package lists. The laws cite
//! `Differences`. The rules are in `docs/commands.md`, "`audit`" and "`manifest`".
#![tactic(auto)]

mod comparing;
mod digests;
mod laws;
mod records;

pub use comparing::{Difference, audit};
pub use db_core::listings_are_at_their_places;
pub use digests::manifest;
pub use laws::{
    an_audit_reports_just_the_files_that_differ, an_audit_reports_nothing_if_all_is_as_recorded,
    audits_depend_on_their_own_reads,
};
