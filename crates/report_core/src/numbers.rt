//! The numbers by which refusals name a field of a package's information and a script: the numbers
//! in tables 3 and 6 of `docs/formats.md`, "Schemas", which count from 1. The contracts have the
//! same list in `Numbers`.

// Table 3: the fields in which a package has to agree with its index.

/// The number of `name` in a package info.
pub const NAME_FIELD: u16 = 1;

/// The number of `version` in a package info.
pub const VERSION_FIELD: u16 = 2;

/// The number of `hashes` in a package info, in which an index has the id.
pub const HASHES_FIELD: u16 = 3;

// Table 6: the scripts of a package.

/// The number of the script `trigger`.
pub const TRIGGER_SCRIPT: u16 = 1;

/// The number of the script `pre-install`.
pub const PRE_INSTALL_SCRIPT: u16 = 2;

/// The number of the script `post-install`.
pub const POST_INSTALL_SCRIPT: u16 = 3;

/// The number of the script `pre-deinstall`.
pub const PRE_DEINSTALL_SCRIPT: u16 = 4;

/// The number of the script `post-deinstall`.
pub const POST_DEINSTALL_SCRIPT: u16 = 5;

/// The number of the script `pre-upgrade`.
pub const PRE_UPGRADE_SCRIPT: u16 = 6;

/// The number of the script `post-upgrade`.
pub const POST_UPGRADE_SCRIPT: u16 = 7;
