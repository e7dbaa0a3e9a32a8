//! The folders in which an earlier run may have changed names without syncing them, since it was
//! killed or failed. The rules are in `docs/crash-safety.md`, "What an earlier run may have left".

use host_root::{Host, HostFault, Root};
use journal_intent::{PreparedIntent, ReadFault, intent_name};
use std::alloc::Global;

/// The path of a file in the staging area. All folders that the journal uses are above this path.
const STAGED: &[u8] = b"lib/apk/stage/0";

/// Notes folders for the next sync of the names, which then also syncs what earlier runs changed:
/// the folders above the journal, and those above each name in the journal entry of an unfinished
/// change.
pub(crate) fn note_earlier_changes<R: Host>(
    root: &mut Root<'_, R>,
    alloc: Global,
) -> Result<(), HostFault> {
    root.note_way(STAGED)?;
    // Without an unfinished change there are no further folders.
    if root.recovers() {
        note_intent(root, alloc)
    } else {
        Ok(())
    }
}

/// Notes the folders above each name in the journal entry of the root. Nothing is noted if there is
/// no journal entry, or if its file is no valid entry; then recovery refuses the file.
fn note_intent<R: Host>(root: &mut Root<'_, R>, alloc: Global) -> Result<(), HostFault> {
    let name = intent_name(alloc)?;
    let Some(len) = root.length_of(name.as_bytes())? else {
        return Ok(());
    };
    let mut file = vec![in alloc; 0u8; len as usize]?;
    root.fill(name.as_bytes(), 0, &mut file)?;
    match PreparedIntent::of_file(alloc, file) {
        Ok(intent) => note_names(root, &intent),
        // The file is no valid journal entry.
        Err(ReadFault::Bad(_)) => Ok(()),
        Err(ReadFault::Memory) => Err(HostFault::Memory),
    }
}

/// Notes the folders above each name in a journal entry.
fn note_names<R: Host>(root: &mut Root<'_, R>, intent: &PreparedIntent) -> Result<(), HostFault> {
    for i in 0..intent.removals_len() {
        root.note_way(intent.removal(i).as_bytes())?;
    }
    for i in 0..intent.writes_len() {
        root.note_way(intent.write(i).as_bytes())?;
    }
    Ok(())
}
