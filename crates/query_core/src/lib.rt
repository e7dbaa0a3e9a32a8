//! What the commands that report on packages of the repositories and the database print: `list`,
//! `search` and `policy` (apk(8)).
//!
//! A query is about all candidates of a pool, also about those that may not be selected. Each query
//! prints the candidates that pass its test, in one order, the order of queries. The contracts cite
//! `Order`, `List`, `Search` and `Policy` of `specs/`. The rules are in `docs/commands.md`,
//! "`list`", "`search`" and "`policy`".
#![tactic(auto)]

mod candidates;
mod laws;
mod list_query;
mod order;
mod policy_query;
mod report_out;
mod search_query;
mod version_places;

pub use laws::{
    a_query_selects_what_passes_its_test, list_prints_what_is_asked_for,
    policy_prints_each_version_once, search_prints_what_is_asked_for,
    the_order_of_queries_is_total, world_changes_no_query,
};
pub use list_query::list;
pub use policy_query::policy;
pub use search_query::search;
