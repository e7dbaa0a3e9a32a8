//! The indexes of fields in an object of their table, counted from 0. The number in brackets is the
//! one by which causes and `docs/formats.md`, "Schemas", name the field; there fields count from 1.
//! The tables themselves are in `tables`. The contracts have the same list in `FieldIndexes`.

// Table 1: a dependency.

/// The index of `name` in a dependency (field 101 in causes).
pub const DEP_NAME_INDEX: usize = 0;

/// The index of `version` in a dependency (field 102 in causes).
pub const DEP_VERSION_INDEX: usize = 1;

/// The index of `match` in a dependency (field 103 in causes).
pub const DEP_MATCH_INDEX: usize = 2;

// Table 2: an access list.

/// The index of `mode` in an access list (field 201 in causes).
pub const ACL_MODE_INDEX: usize = 0;

/// The index of `user` in an access list (field 202 in causes).
pub const ACL_USER_INDEX: usize = 1;

/// The index of `group` in an access list (field 203 in causes).
pub const ACL_GROUP_INDEX: usize = 2;

/// The index of `xattrs` in an access list (field 204 in causes).
pub const ACL_XATTRS_INDEX: usize = 3;

// Table 3: the information of a package.

/// The index of `name` in a package info (field 301 in causes).
pub const INFO_NAME_INDEX: usize = 0;

/// The index of `version` in a package info (field 302 in causes).
pub const INFO_VERSION_INDEX: usize = 1;

/// The index of `hashes` in a package info (field 303 in causes).
pub const INFO_HASHES_INDEX: usize = 2;

/// The index of `description` in a package info (field 304 in causes).
pub const INFO_DESCRIPTION_INDEX: usize = 3;

/// The index of `arch` in a package info (field 305 in causes).
pub const INFO_ARCH_INDEX: usize = 4;

/// The index of `license` in a package info (field 306 in causes).
pub const INFO_LICENSE_INDEX: usize = 5;

/// The index of `origin` in a package info (field 307 in causes).
pub const INFO_ORIGIN_INDEX: usize = 6;

/// The index of `maintainer` in a package info (field 308 in causes).
pub const INFO_MAINTAINER_INDEX: usize = 7;

/// The index of `url` in a package info (field 309 in causes).
pub const INFO_URL_INDEX: usize = 8;

/// The index of `repo-commit` in a package info (field 310 in causes).
pub const INFO_REPO_COMMIT_INDEX: usize = 9;

/// The index of `build-time` in a package info (field 311 in causes).
pub const INFO_BUILD_TIME_INDEX: usize = 10;

/// The index of `installed-size` in a package info (field 312 in causes).
pub const INFO_INSTALLED_SIZE_INDEX: usize = 11;

/// The index of `file-size` in a package info (field 313 in causes).
pub const INFO_FILE_SIZE_INDEX: usize = 12;

/// The index of `provider-priority` in a package info (field 314 in causes).
pub const INFO_PROVIDER_PRIORITY_INDEX: usize = 13;

/// The index of `depends` in a package info (field 315 in causes).
pub const INFO_DEPENDS_INDEX: usize = 14;

/// The index of `provides` in a package info (field 316 in causes).
pub const INFO_PROVIDES_INDEX: usize = 15;

/// The index of `replaces` in a package info (field 317 in causes).
pub const INFO_REPLACES_INDEX: usize = 16;

/// The index of `install-if` in a package info (field 318 in causes).
pub const INFO_INSTALL_IF_INDEX: usize = 17;

/// The index of `recommends` in a package info (field 319 in causes).
pub const INFO_RECOMMENDS_INDEX: usize = 18;

/// The index of `layer` in a package info (field 320 in causes).
pub const INFO_LAYER_INDEX: usize = 19;

/// The index of `tags` in a package info (field 321 in causes).
pub const INFO_TAGS_INDEX: usize = 20;

/// The index of `unused` in a package info (field 322 in causes).
pub const INFO_UNUSED_INDEX: usize = 21;

// Table 4: a file of a folder.

/// The index of `name` in a file (field 401 in causes).
pub const FILE_NAME_INDEX: usize = 0;

/// The index of `acl` in a file (field 402 in causes).
pub const FILE_ACL_INDEX: usize = 1;

/// The index of `size` in a file (field 403 in causes).
pub const FILE_SIZE_INDEX: usize = 2;

/// The index of `mtime` in a file (field 404 in causes).
pub const FILE_MTIME_INDEX: usize = 3;

/// The index of `hashes` in a file (field 405 in causes).
pub const FILE_HASHES_INDEX: usize = 4;

/// The index of `target` in a file (field 406 in causes).
pub const FILE_TARGET_INDEX: usize = 5;

/// The index of `unused` in a file (field 407 in causes).
pub const FILE_UNUSED_INDEX: usize = 6;

// Table 5: a folder of a package.

/// The index of `name` in a folder (field 501 in causes).
pub const DIR_NAME_INDEX: usize = 0;

/// The index of `acl` in a folder (field 502 in causes).
pub const DIR_ACL_INDEX: usize = 1;

/// The index of `files` in a folder (field 503 in causes).
pub const DIR_FILES_INDEX: usize = 2;

// Table 6: the scripts of a package.

/// The index of `trigger` in scripts (field 601 in causes).
pub const SCRIPTS_TRIGGER_INDEX: usize = 0;

/// The index of `pre-install` in scripts (field 602 in causes).
pub const SCRIPTS_PRE_INSTALL_INDEX: usize = 1;

/// The index of `post-install` in scripts (field 603 in causes).
pub const SCRIPTS_POST_INSTALL_INDEX: usize = 2;

/// The index of `pre-deinstall` in scripts (field 604 in causes).
pub const SCRIPTS_PRE_DEINSTALL_INDEX: usize = 3;

/// The index of `post-deinstall` in scripts (field 605 in causes).
pub const SCRIPTS_POST_DEINSTALL_INDEX: usize = 4;

/// The index of `pre-upgrade` in scripts (field 606 in causes).
pub const SCRIPTS_PRE_UPGRADE_INDEX: usize = 5;

/// The index of `post-upgrade` in scripts (field 607 in causes).
pub const SCRIPTS_POST_UPGRADE_INDEX: usize = 6;

// Table 7: a package.

/// The index of `info` in a package (field 701 in causes).
pub const PACKAGE_INFO_INDEX: usize = 0;

/// The index of `paths` in a package (field 702 in causes).
pub const PACKAGE_PATHS_INDEX: usize = 1;

/// The index of `scripts` in a package (field 703 in causes).
pub const PACKAGE_SCRIPTS_INDEX: usize = 2;

/// The index of `triggers` in a package (field 704 in causes).
pub const PACKAGE_TRIGGERS_INDEX: usize = 3;

/// The index of `replaces-priority` in a package (field 705 in causes).
pub const PACKAGE_REPLACES_PRIORITY_INDEX: usize = 4;

// Table 8: an index.

/// The index of `description` in an index (field 801 in causes).
pub const INDEX_DESCRIPTION_INDEX: usize = 0;

/// The index of `packages` in an index (field 802 in causes).
pub const INDEX_PACKAGES_INDEX: usize = 1;

/// The index of `pkgname-spec` in an index (field 803 in causes).
pub const INDEX_PKGNAME_SPEC_INDEX: usize = 2;

// Table 9: the installed database.

/// The index of `packages` in an installed database (field 901 in causes).
pub const IDB_PACKAGES_INDEX: usize = 0;

// Table 10: an intent.

/// The index of `removals` in an intent (field 1001 in causes).
pub const INTENT_REMOVALS_INDEX: usize = 0;

/// The index of `writes` in an intent (field 1002 in causes).
pub const INTENT_WRITES_INDEX: usize = 1;
