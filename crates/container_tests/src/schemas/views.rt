//! Answers `view`: each field of each table, as `docs/formats.md` lists them in "Schemas". How the
//! answers are written is in `tests/lines.md`, `view`. The entries of a list count from 1, so the
//! code gets the entry `i + 1` of a list.
ghost use Rattle.std.specs.Prelude.{◌≡◌};
ghost use Rattle.adb_view.specs.ShapedPayload.{table_of};
ghost use Rattle.adb_view.specs.declared.tables.Which.TheVariants as Tables;

use crate::schemas::answer::{add_cause, add_fault, add_int};
use crate::schemas::payloads::{payload_of, table_of};
use crate::schemas::shapes::shaped_of;
use adb_schema::{
    AclView, Checked, DepView, DirInfo, FileInfo, IdbView, IntentView, List, PackageView, PkgInfo,
    ScriptsView, Shaped, View, Which,
};
use base_core::Words;
use row_lines::{Answer, word_at};
use std::alloc::{AllocError, Global};

/// Answers `view TABLE VALUE`: adds each field of the value. Of a list it adds the name or text of
/// each entry, in brackets; of an object inside the value it adds the first field.
pub(crate) fn add_view(
    alloc: Global,
    words: &Words,
    answer: &mut Answer,
) -> Result<(), AllocError> {
    // The value is in the words of the row from the word 2 on.
    let payload = payload_of(alloc, words, 2)?;
    match shaped_of(&payload, table_of(word_at(words, 1))) {
        Ok(shaped) => add_fields(alloc, shaped, answer),
        Err(cause) => add_cause(alloc, cause, answer),
    }
    Ok(())
}

// Adds the fields of a value.
fn add_fields(alloc: Global, shaped: Shaped<'_>, answer: &mut Answer) {
    let adb = shaped.adb();
    let root = adb.root();
    match shaped.which() {
        Which::Dep => add_dependency(&DepView::of(adb, root), answer),
        Which::Acl => add_rights(&AclView::of(adb, root), answer),
        Which::PkgInfo => add_info(&PkgInfo::of(adb, root), answer),
        Which::File => add_file(shaped, answer),
        Which::Dir => add_folder(&DirInfo::of(adb, root), answer),
        Which::Scripts => add_scripts(&ScriptsView::of(adb, root), answer),
        Which::Package => add_package(shaped, answer),
        Which::Index => add_index(alloc, shaped, answer),
        Which::Idb => add_database(&IdbView::of(adb, root), answer),
        Which::Intent => add_intent(&IntentView::of(adb, root), answer),
    }
}

// Adds the texts of an array, in brackets.
fn add_texts<'a>(list: List<'a, &'a [u8]>, answer: &mut Answer) {
    answer.add_word(b"[");
    for i in 0..list.len() {
        answer.add_word(list.get(i + 1));
    }
    answer.add_word(b"]")
}

// Adds the names of dependencies, in brackets.
fn add_dependencies<'a>(list: List<'a, DepView<'a>>, answer: &mut Answer) {
    answer.add_word(b"[");
    for i in 0..list.len() {
        answer.add_word(list.get(i + 1).name());
    }
    answer.add_word(b"]")
}

// Adds the fields of a dependency.
fn add_dependency(dep: &DepView<'_>, answer: &mut Answer) {
    answer.add_word(dep.name());
    answer.add_word(dep.version());
    add_int(dep.matching(), answer)
}

// Adds the fields of an access list.
fn add_rights(rights: &AclView<'_>, answer: &mut Answer) {
    add_int(rights.mode(), answer);
    answer.add_word(rights.user());
    answer.add_word(rights.group());
    add_texts(rights.xattrs(), answer)
}

// Adds the fields of a file.
fn add_file(shaped: Shaped<'_>, answer: &mut Answer)
    // The table at the root is that of a file.
    requires { table_of shaped ≡ Tables.File }
{
    let adb = shaped.adb();
    let file = FileInfo::of(adb, adb.root());
    answer.add_word(file.name());
    // Of the access list only the first field, the mode, is added.
    add_int(file.acl().mode(), answer);
    add_int(file.size(), answer);
    add_int(file.mtime(), answer);
    answer.add_word(file.hashes());
    answer.add_word(file.target());
    add_int(file.unused(), answer)
}

// Adds the fields of a folder, with the names of its files.
fn add_folder(folder: &DirInfo<'_>, answer: &mut Answer) {
    answer.add_word(folder.name());
    // Of the access list only the first field, the mode, is added.
    add_int(folder.acl().mode(), answer);
    answer.add_word(b"[");
    let files = folder.files();
    for i in 0..files.len() {
        answer.add_word(files.get(i + 1).name());
    }
    answer.add_word(b"]")
}

// Adds the fields of a package's information.
fn add_info(info: &PkgInfo<'_>, answer: &mut Answer) {
    answer.add_word(info.name());
    answer.add_word(info.version());
    answer.add_word(info.hashes());
    answer.add_word(info.description());
    answer.add_word(info.arch());
    answer.add_word(info.license());
    answer.add_word(info.origin());
    answer.add_word(info.maintainer());
    answer.add_word(info.url());
    answer.add_word(info.repo_commit());
    add_int(info.build_time(), answer);
    add_int(info.installed_size(), answer);
    add_int(info.file_size(), answer);
    add_int(info.provider_priority(), answer);
    add_dependencies(info.depends(), answer);
    add_dependencies(info.provides(), answer);
    add_dependencies(info.replaces(), answer);
    add_dependencies(info.install_if(), answer);
    add_dependencies(info.recommends(), answer);
    add_int(info.layer(), answer);
    add_texts(info.tags(), answer);
    add_int(info.unused(), answer)
}

// Adds the seven scripts.
fn add_scripts(scripts: &ScriptsView<'_>, answer: &mut Answer) {
    answer.add_word(scripts.trigger());
    answer.add_word(scripts.pre_install());
    answer.add_word(scripts.post_install());
    answer.add_word(scripts.pre_deinstall());
    answer.add_word(scripts.post_deinstall());
    answer.add_word(scripts.pre_upgrade());
    answer.add_word(scripts.post_upgrade())
}

// Adds the fields of a package, with the names of its folders.
fn add_package(shaped: Shaped<'_>, answer: &mut Answer)
    // The table at the root is that of a package.
    requires { table_of shaped ≡ Tables.Package }
{
    let adb = shaped.adb();
    let package = PackageView::of(adb, adb.root());
    // Of the package's information only the first field, the name, is added.
    answer.add_word(package.info().name());
    answer.add_word(b"[");
    let folders = package.paths();
    for i in 0..folders.len() {
        answer.add_word(folders.get(i + 1).name());
    }
    answer.add_word(b"]");
    // Of the scripts only the first one is added.
    answer.add_word(package.scripts().trigger());
    add_texts(package.triggers(), answer);
    add_int(package.replaces_priority(), answer)
}

// Adds the fields of an index, with the names of its packages, if it passes all tests.
fn add_index(alloc: Global, shaped: Shaped<'_>, answer: &mut Answer)
    // The table at the root is that of an index.
    requires { table_of shaped ≡ Tables.Index }
{
    match Checked::new(alloc, shaped) {
        Ok(checked) => {
            let index = checked.index();
            answer.add_word(index.description());
            answer.add_word(b"[");
            let packages = index.packages();
            for i in 0..packages.len() {
                answer.add_word(packages.get(i + 1).name());
            }
            answer.add_word(b"]");
            answer.add_word(index.pkgname_spec())
        }
        Err(fault) => add_fault(alloc, fault, answer),
    }
}

// Adds the names of the packages of a database.
fn add_database(database: &IdbView<'_>, answer: &mut Answer) {
    let packages = database.packages();
    answer.add_word(b"[");
    for i in 0..packages.len() {
        answer.add_word(packages.get(i + 1).info().name());
    }
    answer.add_word(b"]")
}

// Adds the names that an intent removes, and those that it writes.
fn add_intent(intent: &IntentView<'_>, answer: &mut Answer) {
    add_texts(intent.removals(), answer);
    add_texts(intent.writes(), answer)
}
