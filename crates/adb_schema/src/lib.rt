//! This crate reads whole containers (apk-v3(5)). It has views of what was tested, and the rules
//! for single texts and numbers (apk-package(5)).
//!
//! `shape` makes a `Shaped` of a payload, and `Checked::new` makes a `Checked` of a `Shaped`. The
//! views of a `Checked` borrow from the payload; they have one method per field, which cannot fail.
//! `check_texts` tests each text and number of a `Shaped` by the rule of its field. `repeated`
//! finds repeated names. `read_adb` reads a file and makes all of these tests. `is_reserved` and
//! similar functions decide which names below a root no database may list as files.
//!
//! The contracts cite these modules of `specs/`, and definitions of `adb_view` and `adb_fields`:
//!
//! - `Soundness`: the first failed test of a file;
//! - `Views`: the plain value of a view;
//! - `Checked`: the contents of a checked payload;
//! - `Rules` and `Reserved`: what a text must be;
//! - `Texts`: the rule of each field, and the first that is broken.
//!
//! The rules are in `docs/formats.md`, "Tests of a container" and "The texts", and the fields in
//! "Schemas".
#![tactic(auto)]

mod checked;
mod judged;
mod package;
mod package_info;
mod read;
mod rules;
mod text_walk;

pub use adb_fields::{
    FilePath, Kinded, List, View, field_word, hash_word, int_field, int_word,
    no_repeated_name_is_reported_if_there_is_none, objects_field, objects_word, text_word,
    texts_word,
};
pub use adb_view::{
    ACL, DEP, DIR, FILE, Field, FieldName, IDB, INDEX, INTENT, Kind, PACKAGE, PKGINFO, SCRIPTS,
    Schema, Shaped, Which, fields_of, shape,
};
pub use checked::{Checked, IdbView, IndexView, IntentView};
pub use judged::{Judged, TextRule};
pub use package::{AclView, DirInfo, FileInfo, PackageView, ScriptsView};
pub use package_info::{DepView, PkgInfo};
pub use read::{
    IDB_WORD, INDEX_WORD, INTENT_WORD, PACKAGE_WORD, ReadFault,
    folder_and_file_positions_from_payload, header_schema_if_root_table, read_adb, repeated,
    schema_words_are_as_listed, sound_containers_hold_sound_values,
};
pub use rules::{
    is_folder_name, is_intent_or_stage_name, is_one_part, is_reserved, is_reserved_file,
};
pub use text_walk::{
    check_texts, entries_keep_the_rule_of_their_list, no_text_is_bad_where_each_keeps_its_rule,
    the_first_bad_text_is_reported,
};
