//! Whether a file of a tree has the bytes that a package's entry describes. The rules are in
//! `docs/commands.md`, "What a change does with files", part "Configuration files", the table.
//!
//! `ListedFile` is what an entry of a file (apk-package(5)) says of its bytes. `compare_file` reads
//! the file under a name once, piece by piece, and compares it with the entry of the added package
//! and with that of the package before. A link is written as `LINK_MARK` followed by its
//! `link_text_of_target`. No memory is allocated. The contracts cite `AsListed` (which bytes are as
//! an entry lists them), `Listed` (the same of a `ListedFile`) and `Watching` (what is known of a
//! file that is only read in part) of `specs/`.
#![tactic(auto)]

mod compare;
mod link;
mod watch;

pub use compare::{Comparison, ListedFile, compare_file, compare_file_in, listed_file};
pub use link::{LINK_MARK, link_text_of_target};
pub use pkg_core::{DirInfo, FileInfo, List, PackageView, is_reserved_file};
