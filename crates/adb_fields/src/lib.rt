//! This crate reads the fields of a walked payload; such a read cannot fail. It shows arrays as
//! lists of views, and searches for repeated names.
//!
//! A word is *sound* if it has a plain value of its kind, and each read returns a part of that
//! value. `repeated_names` returns a name that occurs twice in a package, a database or a journal
//! entry. The contracts cite these modules of `specs/`:
//!
//! - `Fields`: the words of fields and arrays;
//! - `ListValue`: the value of a list of views;
//! - `Pairs`: which two positions of a repeated name are reported;
//! - `Repeated`: the names of a container, kind by kind;
//! - `Paths` and `JoinedPath`: the paths of files.
//!
//! The rules are in `docs/formats.md`, "Values" (the meaning of a word, a field and an entry),
//! "Schemas" and "Names that stand twice".
#![tactic(auto)]

mod file_path;
mod known_lists;
mod list;
mod name_lists;
mod pairs;
mod reads;
mod repeated;

pub use file_path::FilePath;
pub use list::{Kinded, List, View};
pub use pairs::{
    the_first_pair_in_one_of_several_lists_is_reported, the_first_pair_of_a_list_is_reported,
    the_first_pair_of_two_lists_is_reported,
};
pub use reads::{
    field_word, hash_field, hash_word, int_field, int_word, object_words, objects_field,
    objects_word, text_field, text_word, texts_field, texts_word, word_or_null,
};
pub use repeated::{no_repeated_name_is_reported_if_there_is_none, repeated_names};
