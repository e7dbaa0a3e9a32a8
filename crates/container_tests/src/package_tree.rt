//! A tree in memory with one file: the package, or other container, that a row is about.
use base_core::Name;
use std::alloc::{AllocError, Global};
use tree_memory::MemoryTree;

/// A tree whose only file is a package.
pub(crate) struct PackageTree {
    /// The tree.
    pub(crate) tree: MemoryTree,
    /// The name of the package in the tree.
    pub(crate) name: Name,
}

/// Drops the parts in one call, so that a function that gives up has one drop and not many.
impl Drop for PackageTree {
    fn drop(self) {
        let PackageTree { tree: _, name: _ } = self;
    }
}

impl PackageTree {
    /// A tree with a package of these bytes, under the name `p`.
    pub(crate) fn new(alloc: Global, file: &[u8]) -> Result<PackageTree, AllocError> {
        let Some(name) = Name::read(alloc, b"p")? else {
            return Err(AllocError);
        };
        let mut package = PackageTree {
            tree: MemoryTree::new(alloc),
            name,
        };
        package.put(file)?;
        Ok(package)
    }

    /// Replaces the package by one of these bytes.
    pub(crate) fn put(&mut self, file: &[u8]) -> Result<(), AllocError> {
        if self.tree.can_put(&self.name) {
            self.tree.put(&self.name, file)?;
        }
        Ok(())
    }
}
