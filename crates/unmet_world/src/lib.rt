//! Why nothing can be selected: a refutation of a world, and the lines that print it. The contracts
//! cite `Refutation` (which steps are a proof that no selection satisfies world) and `Lines` (the
//! text of each line) of `specs/`. The rules are in `docs/selection.md`, "`unable to select
//! packages`".
#![tactic(auto)]

mod exclusion;
mod explain;
mod laws;
mod lines;
mod propagation;
mod refutation;
mod similar;
mod texts;
mod unmet;

pub use explain::explain_selection;
pub use laws::{a_refuted_world_has_no_selection, an_explanation_has_a_line};
pub use refutation::{Owner, Refutation, Step, Want, is_refutation};
pub use unmet::{explanation_of, why_unmet};
