//! Dependencies, world and repositories, after apk-package(5) and apk-world(5). The crate reads
//! dependencies from texts and from fields of a package's information, writes each as one text, and
//! decides what meets them. It reads and writes `etc/apk/world` and `etc/apk/repositories`.
//!
//! `Dep`, `World` and `Repos` are read from bytes and written as texts. A `Dep` borrows and
//! allocates no memory. The contracts cite `specs/`: `Dependency` (the parts and their bytes),
//! `DependencyText` (the grammar and the text), `Reading`, `Value` and `ValueReading`, `Meets`
//! (what a `Dep` represents, and what meets it), `World`, `Repositories`, and `LeadingSlash` (one
//! slash before a path). `Spelling`, `Entries` and `RepositoryText` define the same texts
//! independently of how they are read, and the laws in `laws` relate the two. The rules are in
//! `docs/formats.md`, "Dependencies", "World" and "Repositories".
#![tactic(auto)]

mod dep;
mod laws;
mod repos;
mod text;
mod world;

pub use dep::{Dep, has_slash, is_dependency_name_by_bytes_and_length, is_package_name};
pub use laws::{
    first_bad_line_is_reported, read_texts_are_spelled, repositories_are_read_back,
    spelled_texts_are_read, texts_are_read_back, values_are_read_back,
    words_of_different_names_are_a_world, worlds_are_read_back, worlds_hold_their_words,
};
pub use repos::{Repos, ReposFault, without_leading_slash};
pub use text::{dep_of, dep_of_parts, dep_text, read_dep};
pub use world::{World, WorldFault};
