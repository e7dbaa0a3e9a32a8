//! Answers questions about `file_owners`: who owns the files that packages list.

mod answer;

use crate::members::front_of_row;
use crate::owners::answer::add_owners;
use base_core::Words;
use pkg_core::Front;
use row_lines::{Answer, Subject, value_named, word_at};
use std::alloc::{AllocError, Global};

/// The questions of rows; the README of this crate says what each question answers.
#[derive(Clone, Copy)]
enum Question {
    /// `new`: the packages of earlier rows are forgotten.
    New,
    /// `package NAME VERSION PRIORITY FILES REPLACES ..`: a package is added.
    Package,
    /// `owners`: who owns the files of the added packages.
    Owners,
}

// The first word of the rows of each question.
#[rattlefmt::skip]
const QUESTIONS: [(&[u8], Question); 3] = [
    (b"new", Question::New),
    (b"package", Question::Package),
    (b"owners", Question::Owners),
];

/// The packages that earlier rows have added.
#[derive(Drop)]
pub(crate) struct AddedPackages {
    /// The fronts (headers and first blocks) of the packages, in the order of their rows. A bad
    /// package has no front.
    packages: Vec<Option<Front>>,
}

impl AddedPackages {
    /// A change that adds no packages yet.
    pub(crate) fn new(alloc: Global) -> AddedPackages {
        AddedPackages {
            packages: Vec::new(alloc),
        }
    }
}

impl Subject for AddedPackages {
    // Adds the answer to the row with these words, whose first word names the question.
    fn answer(
        &mut self,
        alloc: Global,
        words: &Words,
        answer: &mut Answer,
    ) -> Result<(), AllocError> {
        match value_named(&QUESTIONS, word_at(words, 0)) {
            Some(Question::New) => self.packages.clear(),
            Some(Question::Package) => self.packages.push(front_of_row(alloc, words)?)?,
            Some(Question::Owners) => return add_owners(alloc, &self.packages, answer),
            None => answer.push(b"no question"),
        }
        Ok(())
    }
}
