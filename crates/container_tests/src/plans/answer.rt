//! The text of a plan of files, and of the fault if a change has no plan, in answers.
//! `tests/lines.md` describes this text under `plan`.

use crate::flags::add_flags;
use base_core::Names;
use own_core::{FilePlan, PlanFault, Write};
use row_lines::Answer;
use std::alloc::AllocError;

/// Adds the text of a plan: `-NAME` for each removed name, `+NAME:MEMBER.FOLDER.FILE` for each
/// written name, `~PATH` for each path beside which a file is written aside, and `=PATH` for each
/// path at which the user's file is kept. After `owned:`, each listed file has `1` if its package
/// owns it, else `0`.
pub(crate) fn add_files(plan: &FilePlan, answer: &mut Answer) {
    add_names(b"-", plan.removals(), answer);
    let writes = plan.writes();
    for i in 0..writes.len() {
        add_write(writes.get(i), answer);
    }
    add_names(b"~", plan.aside(), answer);
    add_names(b"=", plan.kept(), answer);
    answer.add_word(b"owned:");
    add_flags(plan.owned().as_slice(), answer);
}

/// Adds a written name, with the index of its member, and the positions of the folder and of the
/// file in the member.
fn add_write(write: &Write, answer: &mut Answer) {
    answer.add_word(b"+");
    answer.push(write.name.as_bytes());
    let numbers = [(b":", write.member), (b".", write.path), (b".", write.file)];
    for (mark, number) in numbers {
        answer.push(mark);
        answer.add_number(u128::from(number));
    }
}

/// Adds each name as a further word, after a prefix that says what the plan does with the name.
fn add_names(prefix: &[u8], names: &Names, answer: &mut Answer) {
    for i in 0..names.len() {
        answer.add_word(prefix);
        answer.push(names.get(i).as_bytes());
    }
}

/// Adds the text of the fault by which a change has no plan. Out of memory gives no text: the
/// answer fails.
pub(crate) fn add_fault(fault: &PlanFault, answer: &mut Answer) {
    match fault {
        PlanFault::Reserved { path } => {
            answer.add_word(b"reserved");
            answer.add_word(path.as_bytes());
        }
        PlanFault::PathClash { path, other } => {
            answer.add_word(b"clash");
            answer.add_word(path.as_bytes());
            answer.add_word(other.as_bytes());
        }
        PlanFault::Owned {
            path,
            first,
            second,
        } => {
            answer.add_word(b"contested");
            answer.add_word(path.as_bytes());
            answer.add_word(first.as_bytes());
            answer.add_word(second.as_bytes());
        }
        PlanFault::Disk => answer.add_word(b"the tree failed"),
        PlanFault::Memory => answer.add_text(Err(AllocError)),
    }
}
