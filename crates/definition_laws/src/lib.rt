//! Laws: theorems about the definitions of the other crates. No code of this crate runs.
//!
//! Each law is a function that computes nothing; the theorem is its contract. The body of a law
//! calls the laws that its proof needs, and has no effect at run time. The laws cite the
//! definitions of `specs/`, and those of the crates that they speak of. No other crate calls these
//! laws.
#![tactic(auto)]

pub mod answers;
pub mod audits;
pub mod containers;
pub mod dumps;
pub mod making;
pub mod outcomes;
pub mod roots;
pub mod worlds;
