//! The versions of packages, after apk-package(5): which texts are versions, how two of them
//! compare, and which versions an operator accepts. Texts are borrowed bytes. Only
//! `OverlappingVersions`, which reads many versions that share bytes, allocates memory. The
//! contracts cite `is_version` and `version_cmp` of `specs/Order.antt` and `matches` of
//! `specs/Matching.antt`. These rest on the tokens of `specs/Token.antt`. `specs/Grammar.antt`
//! defines the grammar a second time, by how texts are spelled, and the laws in `laws` relate the
//! two.
//!
//! The rules are in `docs/formats.md`, "Versions".
#![tactic(auto)]

mod fuzzy;
mod laws;
mod lexeme;
mod order;
mod overlapping;
mod token;
mod version;

pub use laws::{
    equal_versions_have_equal_tokens, equal_versions_match_fuzzily, one_of_three_matches,
    order_is_reflexive, order_is_total, read_is_spelled, spelled_is_read,
    versions_have_version_bytes,
};
pub use overlapping::OverlappingVersions;
pub use version::{Op, Version};
