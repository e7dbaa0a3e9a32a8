//! The calls that change a tree, each as a function, so that a caller's proof can cite their
//! clauses.
//! What each call does is in `docs/crash-safety.md`, "What each call does"; the contract is that of
//! the same call of the trait `Tree` of `base_core`.
ghost use Rattle.base_core.specs.Calls.{IsCounted, ChangesHistory};
ghost use Rattle.base_core.specs.Tree.{after_append, after_create, after_failed_append, after_remove, after_rename, after_sync, after_sync_names, unchanged_after_failed_call, IsAlwaysAllowed, CanCreate, CanRename, HasName};

use base_core::{Disk, Name, Tree};

/// Removes the name from the tree. An absent name is no fault.
pub fn remove<T: Tree>(tree: &mut T, name: &Name) -> Result<(), Disk>
    // The state that the call adds to the tree's history on success, and the one on an error.
    ensures moves { ChangesHistory IsAlwaysAllowed (after_remove name.now) (after_remove name.now)
        (T.history tree.old) (T.history tree.new) result }
    // How the tree's counts change. Each state allows the call, so that it is never a misuse.
    ensures counts { IsCounted IsAlwaysAllowed (T.history tree.old) (T.counts tree.old)
        (T.counts tree.new) result }
{
    tree.remove(name)
}

/// Makes an empty file under a name that is absent.
pub fn create<T: Tree>(tree: &mut T, name: &Name) -> Result<(), Disk>
    // The state that the call adds to the tree's history on success, and the one on an error.
    ensures moves { ChangesHistory (CanCreate name.now) (after_create name.now) (after_create
        name.now)
        (T.history tree.old) (T.history tree.new) result }
    // How the tree's counts change. The call is a misuse in a state that does not allow it.
    ensures counts { IsCounted (CanCreate name.now) (T.history tree.old) (T.counts tree.old)
        (T.counts tree.new) result }
{
    tree.create(name)
}

/// Adds the bytes at the end of the file of the name.
pub fn append<T: Tree>(tree: &mut T, name: &Name, bytes: &[u8]) -> Result<(), Disk>
    // The state that the call adds to the tree's history on success, and the one on an error.
    ensures moves { ChangesHistory (HasName name.now) (after_append name.now bytes.now)
        (after_failed_append name.now)
        (T.history tree.old) (T.history tree.new) result }
    // How the tree's counts change. The call is a misuse in a state that does not allow it.
    ensures counts { IsCounted (HasName name.now) (T.history tree.old)
        (T.counts tree.old) (T.counts tree.new) result }
{
    tree.append(name, bytes)
}

/// Syncs the file of the name, so that a crash keeps its bytes.
pub fn sync_file<T: Tree>(tree: &mut T, name: &Name) -> Result<(), Disk>
    // The state that the call adds to the tree's history on success, and the one on an error.
    ensures moves { ChangesHistory (HasName name.now)
        (after_sync name.now) unchanged_after_failed_call
        (T.history tree.old) (T.history tree.new) result }
    // How the tree's counts change. The call is a misuse in a state that does not allow it.
    ensures counts { IsCounted (HasName name.now) (T.history tree.old)
        (T.counts tree.old) (T.counts tree.new) result }
{
    tree.sync(name)
}

/// Moves the file of `from` to `to`.
pub fn rename<T: Tree>(tree: &mut T, from: &Name, to: &Name) -> Result<(), Disk>
    // The state that the call adds to the tree's history on success, and the one on an error.
    ensures moves { ChangesHistory (CanRename from.now to.now) (after_rename from.now to.now)
        (after_rename from.now to.now) (T.history tree.old) (T.history tree.new) result }
    // How the tree's counts change. The call is a misuse in a state that does not allow it.
    ensures counts { IsCounted (CanRename from.now to.now) (T.history tree.old)
        (T.counts tree.old) (T.counts tree.new) result }
{
    tree.rename(from, to)
}

/// Syncs all names of the tree, so that no crash undoes a change of them.
pub fn sync_all_names<T: Tree>(tree: &mut T) -> Result<(), Disk>
    // The state that the call adds to the tree's history on success, and the one on an error.
    ensures moves { ChangesHistory IsAlwaysAllowed after_sync_names unchanged_after_failed_call
        (T.history tree.old) (T.history tree.new) result }
    // How the tree's counts change. Each state allows the call, so that it is never a misuse.
    ensures counts { IsCounted IsAlwaysAllowed (T.history tree.old) (T.counts tree.old)
        (T.counts tree.new) result }
{
    tree.sync_names()
}
