//! Answers questions about `version_core` and `dep_core`: versions and their order, dependencies,
//! worlds and lists of repositories.

mod versions;
mod worlds;

use crate::dependencies::versions::{add_operators, match_of, order_of, reads_as_itself};
use crate::dependencies::worlds::{
    add_dependency, add_edits, add_meeting, add_repositories, add_world, dependency_of_fields,
};
use base_core::Words;
use dep_core::{is_dependency_name_by_bytes_and_length, is_package_name, read_dep};
use row_lines::{Answer, value_named, word_at};
use std::alloc::Global;

/// The kinds of questions, with what is answered; the README of this crate says more.
#[derive(Clone, Copy)]
enum Question {
    /// `version TEXT`: whether the text is a version.
    Version,
    /// `order VERSION VERSION`: which of the two versions is less.
    Order,
    /// `match VERSION BITS WANTED`: whether the version matches WANTED with the operator of these
    /// bits.
    Match,
    /// `operators`: the match bits of all operators.
    Operators,
    /// `dependency TEXT`: the text of the dependency that a text is.
    Dependency,
    /// `value NAME VERSION MATCH`: the text of the dependency that has these fields.
    Value,
    /// `meets DEPENDENCY NAME VERSION`: whether this package meets the dependency.
    Meets,
    /// `name TEXT`: whether the text may name a dependency.
    Name,
    /// `package TEXT`: whether the text may name a package.
    Package,
    /// `world TEXT`: the text of world as it is written, or its first bad line.
    World,
    /// `edits WORLD EDIT ..`: the results of edits of world.
    Edits,
    /// `repositories TEXT`: the tags and paths of a list of repositories, or its first bad line.
    Repositories,
}

// The words that questions begin with.
#[rattlefmt::skip]
const QUESTIONS: [(&[u8], Question); 12] = [
    (b"version", Question::Version),
    (b"order", Question::Order),
    (b"match", Question::Match),
    (b"operators", Question::Operators),
    (b"dependency", Question::Dependency),
    (b"value", Question::Value),
    (b"meets", Question::Meets),
    (b"name", Question::Name),
    (b"package", Question::Package),
    (b"world", Question::World),
    (b"edits", Question::Edits),
    (b"repositories", Question::Repositories),
];

/// Answers a question about the two crates, by its first word. Questions are independent of each
/// other.
pub(crate) fn answer_about_dependencies(alloc: Global, words: &Words, answer: &mut Answer) {
    let Some(question) = value_named(&QUESTIONS, word_at(words, 0)) else {
        answer.push(b"no question");
        return;
    };
    // The words behind the word of the question. A word that is not there is empty.
    let first = word_at(words, 1);
    let second = word_at(words, 2);
    let third = word_at(words, 3);
    match question {
        Question::Version => answer.add_yes_or_no(reads_as_itself(first)),
        Question::Order => answer.push(order_of(first, second)),
        Question::Match => answer.push(match_of(first, second, third)),
        Question::Operators => add_operators(answer),
        Question::Dependency => add_dependency(alloc, read_dep(first), answer),
        Question::Value => {
            add_dependency(alloc, dependency_of_fields(first, second, third), answer)
        }
        Question::Meets => add_meeting(first, second, third, answer),
        Question::Name => answer.add_yes_or_no(is_dependency_name_by_bytes_and_length(first)),
        Question::Package => answer.add_yes_or_no(is_package_name(first)),
        Question::World => add_world(alloc, first, answer),
        Question::Edits => add_edits(alloc, words, answer),
        Question::Repositories => add_repositories(alloc, first, answer),
    }
}
