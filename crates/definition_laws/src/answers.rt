//! Laws about the definitions of reports and refusals: they say in other words what a user reads.
//!
//! The rules are in `docs/commands.md`, "`add` and `del`", "`upgrade` and `fix`", "Files that
//! several packages list", "What a change does with files", "`info`", "Queries" and "`manifest`",
//! in `docs/formats.md`, "Text database of version 2", and in `docs/selection.md`, "What there is
//! to choose from".

pub mod changes;
pub mod entries;
pub mod found;
pub mod ids;
pub mod info;
pub mod kept;
pub mod letters;
pub mod listed;
pub mod manifest;
pub mod queries;
pub mod replaces;
pub mod report;
pub mod scripts;
pub mod triggers;
