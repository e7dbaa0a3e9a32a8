//! The explanation of a change that was refused because nothing can be selected. It reads the root
//! once more, and writes nothing. The rules are in `docs/commands.md`, "Why nothing can be
//! selected".
ghost use Rattle.std.specs.Prelude.{◌≡◌, ◌⊎◌, ℕ, List, [], Err, IfOk, OnOk};
ghost use Rattle.base_core.specs.Read.{OnlyReads};
ghost use Rattle.base_core.specs.Sink.{sink_before_and_after};
ghost use Rattle.base_core.specs.declared.tree.TreeFault.TheVariants.{Disk as DiskFault};
ghost use Rattle.change_inputs.specs.Seen.{inputs_seen};
ghost use Rattle.change_inputs.specs.declared.root.Refused.TheVariants.{Disk as ReadFailed};
ghost use Rattle.hint_core.specs.Told.{Tells};
ghost use Rattle.unmet_world.specs.Explained.{ExplainsForApplet, ExplainsChange, ExplainsInputs, ExplainsPool, ExplainsResult, ExplainsCommandLine};
ghost use Rattle.words_core.specs.Grammar.{command_of};

use crate::unmet::explanation_of;
use base_core::{Sink, Tree, TreeFault, Words};
use change_inputs::{Loaded, Refused};
use command_core::{Applet, Command};
use dep_core::{Repos, World};
use hint_core::{HintFault, no_index_line, write_lines};
use search_tables::{Sealed, Upgrade};
use std::alloc::{AllocError, Global};
use words_core::read_words;

/// Writes the lines that explain why no selection satisfies the world that a command asks for. The
/// root is read once; nothing of the tree is changed.
///
/// # Errors
///
/// `Disk` or `Memory`, and nothing was written; or `Sink`, and a prefix of the lines was.
pub fn explain_selection<T: Tree, S: Sink>(
    alloc: Global,
    words: &Words,
    tree: &mut T,
    sink: &mut S,
) -> Result<(), HintFault>
    // The lines explain the world. If the call fails, nothing was written, or a prefix of them.
    ensures told { (text : List ℕ)
        × ((text ≡ []) ⊎ ExplainsCommandLine (command_of words.now) (T.history tree.old) text)
        × OnOk result (ExplainsCommandLine (command_of words.now) (T.history tree.old) text)
        × Tells text (sink_before_and_after S.bytes S.counts sink.old sink.new) result }
    // The tree is only read.
    ensures tree { OnlyReads HintFault.Disk (T.history tree.old) (T.history tree.new)
        (T.counts tree.old) (T.counts tree.new) result }
{
    let text = explanation_for(alloc, words, tree)?;
    write_lines(&text, sink)
}

// The explanation for a command line; empty if its words are no command that changes packages.
fn explanation_for<T: Tree>(
    alloc: Global,
    words: &Words,
    tree: &mut T,
) -> Result<Vec<u8>, TreeFault>
    ensures text { IfOk result (λ text.
        ExplainsCommandLine (command_of words.now) (T.history tree.old) text.items) }
    // The tree is only read.
    ensures tree { OnlyReads TreeFault.Disk (T.history tree.old) (T.history tree.new)
        (T.counts tree.old) (T.counts tree.new) result }
{
    match read_words(alloc, words) {
        Ok(command) => explanation_of_command(alloc, &command, tree),
        Err(words_core::WordsFault::Usage { place: _ }) => Ok(Vec::new(alloc)),
        Err(words_core::WordsFault::Memory) => Err(TreeFault::Memory),
    }
}

// The explanation why no selection satisfies the new world of a command that changes packages. The
// text is empty for a command with another applet.
fn explanation_of_command<T: Tree>(
    alloc: Global,
    command: &Command,
    tree: &mut T,
) -> Result<Vec<u8>, TreeFault>
    ensures text { IfOk result (λ text.
        ExplainsForApplet command.now.applet command.now (T.history tree.old) text.items) }
    // The tree is only read.
    ensures tree { OnlyReads TreeFault.Disk (T.history tree.old) (T.history tree.new)
        (T.counts tree.old) (T.counts tree.new) result }
{
    match command.applet() {
        Applet::Add | Applet::Del | Applet::Upgrade | Applet::Fix => {
            explanation_of_change(alloc, command, tree)
        }
        _ => Ok(Vec::new(alloc)),
    }
}

// The explanation of a change of packages; empty if the root is refused now.
fn explanation_of_change<T: Tree>(
    alloc: Global,
    command: &Command,
    tree: &mut T,
) -> Result<Vec<u8>, TreeFault>
    ensures text { IfOk result (λ text.
        ExplainsChange command.now (T.history tree.old) text.items) }
    // The tree is only read.
    ensures tree { OnlyReads TreeFault.Disk (T.history tree.old) (T.history tree.new)
        (T.counts tree.old) (T.counts tree.new) result }
{
    let read = Loaded::read(alloc, command, tree);
    explanation_of_read(alloc, &read)
}

// The explanation by the result of reading a root; empty if the root is refused now.
fn explanation_of_read(alloc: Global, read: &Result<Loaded, Refused>) -> Result<Vec<u8>, TreeFault>
    ensures text { IfOk result (λ text. ExplainsResult read.now text.items) }
    // The tree failed exactly if the reading did.
    ensures to { result ≡ Err DiskFault → read.now ≡ Err ReadFailed }
    ensures from { read.now ≡ Err ReadFailed → result ≡ Err DiskFault }
{
    match read {
        Ok(loaded) => Ok(explanation_of_loaded(alloc, loaded)?),
        Err(Refused::Refusal(_)) => Ok(Vec::new(alloc)),
        Err(Refused::Disk) => Err(TreeFault::Disk),
        Err(Refused::Memory) => Err(TreeFault::Memory),
    }
}

// The explanation of the new world of a command, by what was read of the root; empty if there are
// too many candidates for a pool.
fn explanation_of_loaded(alloc: Global, loaded: &Loaded) -> Result<Vec<u8>, AllocError>
    ensures { IfOk result (λ text. ExplainsInputs (inputs_seen loaded.now) text.items) }
{
    // Which packages are upgraded makes no difference to the explanation.
    match loaded.pool(alloc, Upgrade::Nothing) {
        Ok(pool) => explanation_of_pool(
            alloc,
            &pool,
            loaded.new_world(),
            loaded.world(),
            loaded.repositories(),
        ),
        Err(Refused::Refusal(_)) => Ok(Vec::new(alloc)),
        Err(_) => Err(AllocError),
    }
}

// The explanation of the world of a pool, and the line that says that there is no repository, if
// there is none. `listed` has the entries of the file of world.
fn explanation_of_pool(
    alloc: Global,
    pool: &Sealed<'_>,
    world: &World,
    listed: &World,
    repositories: &Repos,
) -> Result<Vec<u8>, AllocError>
    // The world is the one with which the pool was sealed.
    requires { world.now ≡ pool.now.world }
    ensures { IfOk result (λ text.
        ExplainsPool listed.now repositories.now pool.now text.items) }
{
    let mut text = explanation_of(alloc, pool, world, listed, repositories)?;
    text.extend_from_slice(no_index_line(repositories))?;
    Ok(text)
}
