//! World before a command and after it. The rules are in `docs/formats.md`, "World", and in
//! `docs/commands.md`, "`add` and `del`".
ghost use Rattle.base_core.specs.Read.{bytes_in};
ghost use Rattle.change_inputs.specs.Answers.{Agrees};
ghost use Rattle.change_inputs.specs.World.{new_world, operand_texts, root_world, found_text_or_empty, world_with_operand, world_with_operands, world_without_operands};
ghost use Rattle.change_inputs.specs.WorldRest.{world_without_names};
ghost use Rattle.std.specs.Prelude.{◌≡◌, [], IfOk, OnOk};

use crate::root::Refused;
use base_core::Words;
use command_core::{Applet, Command, Operand, Operands};
use dep_core::{World, WorldFault, read_dep};
use pool_core::SortedWords;
use report_core::Refusal;
use std::alloc::{AllocError, Global};

/// The most texts that a list of words holds (`docs/commands.md`, "Answers and statuses"): 2^32 -
/// 2.
const MOST_TEXTS: usize = 4294967294;

/// World, before a command and after it.
#[derive(Drop)]
pub(crate) struct Worlds {
    /// The text of world's file before the command; no bytes if the file is absent.
    pub(crate) text: Vec<u8>,
    /// The entries of world before the command, as the text has them.
    pub(crate) before: World,
    /// The entries of world after the command has added or removed some.
    pub(crate) after: World,
}

/// World before and after a command, given the file of world that was found, or None.
///
/// # Errors
///
/// `WorldBad` with the first bad line, or `Memory`.
pub(crate) fn worlds_of(
    alloc: Global,
    command: &Command,
    found: Option<Vec<u8>>,
) -> Result<Worlds, Refused>
    // World before the command is that of the file, or its first bad line is refused.
    ensures read { Agrees (λ worlds. worlds.before) result
        (root_world (found_text_or_empty (bytes_in found))) }
    // The file's text is kept. A change compares the text of the new world with it.
    ensures text { IfOk result (λ worlds. worlds.text.items
        ≡ found_text_or_empty (bytes_in found)) }
    // World after the command is the definition *new_world* of world before.
    ensures after { IfOk result (λ worlds.
        worlds.after ≡ new_world command.now.applet command.now.operands worlds.before) }
{
    let text = found_text_or_empty(alloc, found);
    let before = read_world(alloc, &text)?;
    let mut after = read_world(alloc, &text)?;
    change_world(alloc, command, &mut after)?;
    Ok(Worlds {
        text,
        before,
        after,
    })
}

/// The bytes of world's file, or of the list of repositories. A file that is absent counts as
/// empty.
pub(crate) fn found_text_or_empty(alloc: Global, found: Option<Vec<u8>>) -> Vec<u8>
    ensures { result.items ≡ found_text_or_empty (bytes_in found) }
{
    match found {
        Some(text) => text,
        None => Vec::new(alloc),
    }
}

// The entries of world that a text has, or the number of its first bad line.
fn read_world(alloc: Global, text: &[u8]) -> Result<World, Refused>
    // The result is that of the definition: the entries, or the refusal; or out of memory.
    ensures { Agrees (λ world. world) result (root_world text.now) }
{
    match World::read(alloc, text) {
        Ok(world) => Ok(world),
        Err(WorldFault::Bad { line }) => Err(Refused::Refusal(Refusal::WorldBad { line })),
        Err(WorldFault::Memory) => Err(Refused::Memory),
    }
}

// Changes world as a command says: `add` inserts its operands, `del` removes theirs.
fn change_world(alloc: Global, command: &Command, world: &mut World) -> Result<(), AllocError>
    ensures { OnOk result
        (world.new ≡ new_world command.now.applet command.now.operands world.old) }
{
    match command.applet() {
        Applet::Add => add_operands(command.operands(), world),
        Applet::Del => take_operands(alloc, command.operands(), world),
        _ => Ok(()),
    }
}

// Inserts each operand of `add`, in their order.
fn add_operands(operands: &Operands, world: &mut World) -> Result<(), AllocError>
    ensures { OnOk result (world.new ≡ world_with_operands operands.now world.old) }
{
    for i in 0..operands.len() {
        add_operand(operands.get(i), world)?;
    }
    Ok(())
}

// Inserts an operand, replacing the entry of its name. Each operand of `add` is a dependency, by
// the grammar of the command line.
fn add_operand(operand: &Operand, world: &mut World) -> Result<(), AllocError>
    ensures { OnOk result (world.new ≡ world_with_operand operand.now world.old) }
{
    match read_dep(operand.text.as_bytes()) {
        Some(dep) => world.add(&dep),
        None => Ok(()),
    }
}

// Removes the entries whose names are operands of `del`. The names are sorted first, so that the
// time is in proportion to n log n for n names and entries.
fn take_operands(alloc: Global, operands: &Operands, world: &mut World) -> Result<(), AllocError>
    ensures { OnOk result (world.new ≡ world_without_operands operands.now world.old) }
{
    let texts = operand_texts(alloc, operands)?;
    let names = SortedWords::of(alloc, &texts)?;
    let rest = world_without(alloc, world, &names)?;
    *world = rest;
    Ok(())
}

// The entries of world whose names are not among `names`, in their order.
fn world_without(alloc: Global, world: &World, names: &SortedWords<'_>) -> Result<World, AllocError>
    ensures { IfOk result (λ rest. rest ≡ world_without_names names.now world.now) }
{
    let mut rest = empty_world(alloc)?;
    for i in 0..world.len() {
        let entry = world.entry(i);
        if !names.has(entry.name) {
            rest.add(&entry)?;
        }
    }
    Ok(rest)
}

// A world without entries.
fn empty_world(alloc: Global) -> Result<World, AllocError>
    ensures { IfOk result (λ world. world ≡ []) }
{
    match World::read(alloc, b"") {
        Ok(world) => Ok(world),
        Err(_) => Err(AllocError),
    }
}

/// The texts of operands, in their order.
///
/// # Errors
///
/// Out of memory, also if there are more than a list of words holds.
pub fn operand_texts(alloc: Global, operands: &Operands) -> Result<Words, AllocError>
    ensures { IfOk result (λ texts. texts ≡ operand_texts operands.now) }
{
    let mut texts = Words::new(alloc);
    for i in 0..operands.len() {
        // A list of words has no room for more texts, which counts as out of memory.
        if i >= MOST_TEXTS {
            return Err(AllocError);
        }
        texts.push(operands.get(i).text.as_bytes())?;
    }
    Ok(texts)
}
