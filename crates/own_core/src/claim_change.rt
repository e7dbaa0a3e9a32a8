//! `ClaimChange`: a change of packages, with the claims of these packages, that is, their entries
//! for files.
//! `docs/commands.md`, "Files that several packages list", says which packages and files these are;
//! *HasClaimsOfPackages* of `specs/Sides.antt`, what holds of the lists of claims.

use file_owners::{Db, Members};
use path_claim_lists::Claim;

/// The packages before a change and after it, with their claims in byte order of the paths: before
/// the change one claim for each path, after it all claims.
#[derive(Clone, Copy)]
pub struct ClaimChange<'c, 'o, 'n> {
    /// The database before the change.
    pub db: &'c Db<'o>,
    /// The kept and added packages after the change.
    pub members: &'c Members<'n>,
    /// The claims of the packages before the change, one for each path.
    pub before: &'c [Claim<'o>],
    /// All claims of the packages after the change.
    pub after: &'c [Claim<'n>],
    /// Whether configuration that the user changed is removed with its package (option `--purge`).
    pub purge: bool,
}
