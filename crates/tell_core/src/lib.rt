//! The results of the commands that only report on an installed root: `info`, `audit`, `manifest`,
//! `list`, `search` and `policy`.
//!
//! The contract of `tell` cites `ReportForCommand` of `specs/` (what each of these commands
//! reports, or why it is refused) and with it `InfoResult`, `AuditResult` and `QueryResult`.
//! `InfoResult` cites `Info` (the report of `info`, in each form) and with it `InfoForm` (the form
//! that a command selects) and `InfoPackages` (the package that an operand means). Each command's
//! rules are in `docs/commands.md`, under its name.
#![tactic(auto)]

mod audit;
mod info;
mod query;
mod telling;

pub use change_inputs::Refused;
pub use info::reporting::{
    ReportAndRefusal, info_refuses_only_for_an_operand, owners_are_those_that_list_a_path,
    packages_have_the_names_that_ask_for_them,
};
pub use telling::tell;
