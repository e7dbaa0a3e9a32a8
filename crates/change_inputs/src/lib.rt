//! What a change reads of a root: the database, world, the list of repositories and their indexes,
//! tested in this order, and the candidates for the solver. The rules are in `docs/commands.md`,
//! "`add` and `del`", part "What is read".
//!
//! `Loaded::read` reads and tests these inputs, and a `Loaded` keeps them: its method `db` opens
//! the database, and `pool` makes the candidates of the indexes and of the database.
//! `Installed::read` reads the database alone. The contracts cite `Inputs` and `Candidates` of
//! `specs/`, which define the inputs and the candidates by the files that are found.
#![tactic(auto)]

mod database;
mod index;
mod installed;
mod loaded;
mod root;
mod world;

// What crates that depend on this one may call: functions, types and laws of this crate, and of
// crates on which it depends.
pub use installed::Installed;
pub use loaded::Loaded;
pub use pool_core::{Candidate, Sealed, Upgrade, options_are_the_best_first};
pub use root::{Refused, inputs_depend_on_their_own_reads};
pub use world::operand_texts;
