//! The program `apk`: it calls `apk_as_promised`, which runs its command line over the folder that
//! it runs in and the two standard streams, and then prints hints for the user. The rules are in
//! `docs/commands.md`, "Answers and statuses" and "A fault of the tree".
//!
//! This crate is trusted, as is `host_tree`: its tree and its sinks obey their traits, but no proof
//! can see what the host did. Everything else is decided in the crates below it.
#![tactic(auto)]

mod process;

use apk_front::{Answer, Refusal, RootAccess, access_for, status};
use base_core::{Sink, Tree, Words};
use headline::apk_as_promised;
use hint_core::{explain, explain_contents, explain_package, warn};
use host_files::{Lock, write_path};
use host_tree::HostTree;
use process::{ArgumentsFault, HostSink, take_stack, words_of};
use std::alloc::Global;
use std::io;
use std::io::Write;
use std::process::ExitCode;
use unmet_world::explain_selection;
use words_core::explain_usage;

/// The status of a run that has no memory for its arguments or its stack (`docs/commands.md`,
/// "Answers and statuses").
const NO_MEMORY: u8 = 4;

/// The status of a run with too many arguments, which is reported before anything else is done (the
/// same table).
const TOO_MANY_WORDS: u8 = 5;

/// The last line that is printed after an I/O error of the tree, if there is a journal entry: that
/// of this run's change, or that of an earlier change that recovery has not finished.
const UNFINISHED: &[u8] =
    b"apk: the change is committed: once the cause is gone, the next command finishes it\n";

/// The warning that `mkpkg -F` has left out a permission to execute, or an empty folder.
const OMITTED: &[u8] =
    b"apk: the package drops a permission to execute, or an empty folder, that the folder has\n";

/// Runs the command line over the folder that the program runs in, and exits with the status of its
/// answer. The lock on the folder is shared or exclusive, as the command needs.
fn main(rt: HostRuntime) -> ExitCode {
    let words = match words_of(&rt, rt.alloc()) {
        Ok(words) => words,
        Err(ArgumentsFault::Memory) => return out_of_memory(&rt),
        Err(ArgumentsFault::TooMany) => {
            let _ = rt.stderr().write_all(b"ERROR: too many words\n");
            return ExitCode::from(TOO_MANY_WORDS);
        }
    };
    if take_stack(rt.alloc(), words.len()).is_err() {
        return out_of_memory(&rt);
    }
    let Ok(access) = access_for(rt.alloc(), &words) else {
        return out_of_memory(&rt);
    };
    let mut tree = HostTree::new(&rt, rt.alloc(), lock_for(access));
    let mut out = HostSink::new(rt.stdout());
    let mut err = HostSink::new(rt.stderr());
    let answer = apk_as_promised(rt.alloc(), &words, &mut tree, &mut out, &mut err);
    if let Answer::TreeFault = answer {
        // An I/O error of the tree: which call failed, and why.
        let _ = tell_why(&rt, &tree);
    }
    // Forget what lists of the run omitted. After an answer `Ok`, only the folder of `mkpkg -F` is
    // listed for the hints, so that the next call tells what this list omitted.
    tree.take_omitted();
    print_hints(rt.alloc(), &words, &answer, &mut tree, &mut err);
    if tree.take_omitted()
        && let Answer::Ok = answer
    {
        let _ = rt.stderr().write_all(OMITTED);
    }
    // Release the lock on the folder.
    tree.leave();
    ExitCode::from(status(&answer))
}

/// Prints hints for the user, if the answer has any. If the output fails, or memory runs out, the
/// rest of the hints is left out.
fn print_hints<T: Tree, E: Sink>(
    alloc: Global,
    words: &Words,
    answer: &Answer,
    tree: &mut T,
    err: &mut E,
) {
    match answer {
        // A command line that is not valid: what is wrong with the word at this place.
        Answer::Refused(Refusal::Usage { place }) => {
            let _ = explain_usage(words, *place, err);
        }
        // No selection of packages satisfies world: why not.
        Answer::Refused(Refusal::Unsatisfied) => {
            let _ = explain_selection(alloc, words, tree, err);
        }
        // Any other refusal: what is wrong with which package, file or name.
        Answer::Refused(refusal) => {
            // The path at which the file of a refused package is looked for.
            let _ = explain_package(alloc, words, refusal, tree, err);
            // The hints that belong to this kind of refusal.
            let _ = explain(alloc, words, refusal, tree, err);
            // The files of a package whose positions the refusal names.
            let _ = explain_contents(alloc, words, refusal, tree, err);
        }
        Answer::Ok => {
            let _ = warn(alloc, words, tree, err);
        }
        // A failed tree or output stream, or out of memory: there are no hints.
        _ => {}
    }
}

/// Prints that the program is out of memory, and returns the exit status for this: there is no
/// memory for the arguments, or for the stack.
fn out_of_memory(rt: &HostRuntime) -> ExitCode {
    let _ = rt.stderr().write_all(b"ERROR: out of memory\n");
    ExitCode::from(NO_MEMORY)
}

/// The lock that a run takes on its root: exclusive if it writes, and shared with other runs if it
/// only reads.
fn lock_for(access: RootAccess) -> Lock {
    match access {
        RootAccess::Read => Lock::Shared,
        RootAccess::Write => Lock::Exclusive,
    }
}

/// Prints on standard error, after an I/O error of the tree: the first call on the host that
/// failed, the file that may have its new contents already, and whether the next command finishes a
/// change.
fn tell_why(rt: &HostRuntime, tree: &HostTree<'_, HostRuntime>) -> io::Result<()> {
    let mut stderr = rt.stderr();
    if let Some(failure) = tree.failure() {
        failure.print(rt.alloc(), &mut stderr)?;
    }
    if let Some(name) = tree.maybe_renamed_name() {
        stderr.write_all(b"apk: ")?;
        write_path(name, &mut stderr)?;
        stderr.write_all(b" may have its new contents already\n")?;
    }
    if tree.has_unfinished_change() {
        stderr.write_all(UNFINISHED)?;
    }
    Ok(())
}
