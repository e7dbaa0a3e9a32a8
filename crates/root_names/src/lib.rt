//! The names of the files of a root that `apk` reads and writes: its database, the
//! text database of version 2, world and the list of repositories. `RootNames` of `specs/` has
//! them. `PackagePath` has the path of a package's file, beside the index that has the package.
//!
//! The rules are in `docs/apk.8.md`, "FILES", and in `docs/commands.md`, "`add` and `del`", **What
//! is read**.
#![tactic(auto)]

mod beside_index;

ghost use Rattle.root_names.specs.RootNames.{database_name, repositories_name, text_database_name, world_name};
ghost use Rattle.std.specs.Prelude.{◌≡◌, IfOk};

use base_core::Name;
pub use beside_index::{package_file_beside, package_path};
use std::alloc::{AllocError, Global};

/// The bytes of the name of the installed database.
pub const DATABASE_NAME: &[u8] = b"lib/apk/db/installed.adb";

/// The bytes of the name of world: the dependencies that the user asks for.
pub const WORLD_NAME: &[u8] = b"etc/apk/world";

/// The name of the installed database, `lib/apk/db/installed.adb`.
pub fn database_name(alloc: Global) -> Result<Name, AllocError>
    ensures { IfOk result (λ name. name ≡ database_name) }
{
    Name::of(alloc, DATABASE_NAME)
}

/// The name of the text database of version 2 of apk-tools, `lib/apk/db/installed`.
pub fn text_database_name(alloc: Global) -> Result<Name, AllocError>
    ensures { IfOk result (λ name. name ≡ text_database_name) }
{
    Name::of(alloc, b"lib/apk/db/installed")
}

/// The name of world, `etc/apk/world`: the dependencies that the user asks for.
pub fn world_name(alloc: Global) -> Result<Name, AllocError>
    ensures { IfOk result (λ name. name ≡ world_name) }
{
    Name::of(alloc, WORLD_NAME)
}

/// The name of the list of repositories, `etc/apk/repositories`, which names the indexes.
pub fn repositories_name(alloc: Global) -> Result<Name, AllocError>
    ensures { IfOk result (λ name. name ≡ repositories_name) }
{
    Name::of(alloc, b"etc/apk/repositories")
}
