//! Reads what options name in the tree (apk(8), `mkpkg`): the folder whose files a package has, and
//! the files of its scripts.
//! The rules are in `docs/commands.md`, "`mkpkg`" (TYPE:FILE of `-s`, and `-F DIR`) and "Words"
//! (the options).
ghost use Rattle.base_core.specs.Calls.{IfObservable};
ghost use Rattle.base_core.specs.Read.{OnlyReads};
ghost use Rattle.command_core.specs.Sound.{value_rules, are_allowed_values};
ghost use Rattle.command_core.specs.Files.{without_one_leading_dot_slash};
ghost use Rattle.command_core.specs.Values.{script_file};
ghost use Rattle.command_core.specs.declared.command.Applet.TheVariants.{Mkpkg};
ghost use Rattle.command_core.specs.declared.values.TheConstants.{FILES, SCRIPT};
ghost use Rattle.make_core.specs.Answers.{IsOkOrDiskOrMemory, IsFirstValue, IsSortedListingOfFirstFolder};
ghost use Rattle.package_files.specs.Packed.{IsPacking};
ghost use Rattle.package_files.specs.Runs.{AgreesOrIsFault, HoldsOfSomeReadsOfTree};
ghost use Rattle.make_core.specs.Scripts.{AreScripts, IsScript};
ghost use Rattle.package_files.specs.Sources.{AreSortedAndEachBelowFirstFolder, source_folders_of_first_option_only, values_of_letter, script_at, scripts_from_read};
ghost use Rattle.std.specs.Prelude.{◌≡◌, ◌++◌, ◌∷◌, [], ℕ, IfOk, IsTrue, OnOk};

use crate::packages::writing::Script;
use base_core::{Name, Names, Tree};
use command_core::{FILES, OptionValue, SCRIPT, Values, without_one_leading_dot_slash};
use package_files::{MakeFault, Packing, pack_names, read_file};
use std::alloc::{AllocError, Global};

/// The names of the files below the folder that the first `-F` gives, in byte order and each once,
/// whatever the tree returns. No names if `-F` is not given.
pub(crate) fn list_names<T: Tree>(
    alloc: Global,
    tree: &mut T,
    values: &Values,
) -> Result<Names, MakeFault>
    // The values are those of a valid command `mkpkg`.
    requires { IsTrue (are_allowed_values (value_rules Mkpkg) values.now) }
    // The tree is only read: no file changes, no I/O error is hidden, and no call is a misuse.
    ensures tree { OnlyReads MakeFault.Disk (T.history tree.old) (T.history tree.new)
        (T.counts tree.old) (T.counts tree.new) result }
    // A listing can fail only by an I/O error of the tree or out of memory.
    ensures cut { IsOkOrDiskOrMemory result }
    // If the tree's files are observable, these are exactly the names of its files below the
    // folder.
    ensures names { IfOk result (λ names. IfObservable (T.history tree.old) (λ v.
        IsSortedListingOfFirstFolder (values_of_letter FILES values.now) v names)) }
    // Whatever the tree returns, these are names below the folder, in byte order and each once.
    ensures order { IfOk result (λ names. AreSortedAndEachBelowFirstFolder
        (values_of_letter FILES values.now) names) }
{
    match values.first_file(FILES) {
        Some(folder) => {
            let names = tree.list(alloc, folder)?;
            Ok(names)
        }
        None => Ok(Names::new(alloc)),
    }
}

/// Packs the files of these names, which are listed below the folder of the first `-F`. Without
/// `-F` the packing has no folders.
pub(crate) fn pack_below<'a, T: Tree>(
    alloc: Global,
    tree: &mut T,
    values: &Values,
    names: &'a Names,
) -> Result<Packing<'a>, MakeFault>
    // The tree is only read: no file changes, no I/O error is hidden, and no call is a misuse.
    ensures tree { OnlyReads MakeFault.Disk (T.history tree.old) (T.history tree.new)
        (T.counts tree.old) (T.counts tree.new) result }
    // For each number `n` of the first read, some results of reads give this result. If the tree is
    // observable, the reads find its files.
    ensures read { (n : ℕ) → HoldsOfSomeReadsOfTree (T.history tree.old) (λ read.
        AgreesOrIsFault IsPacking result (source_folders_of_first_option_only read n
        (values_of_letter FILES values.now) names.now)) }
{
    match first_folder(values) {
        Some(value) => {
            let folder = without_one_leading_dot_slash(value.text.as_bytes());
            pack_names(alloc, tree, value.place, folder, names)
        }
        None => Ok(Packing {
            folders: Vec::new(alloc),
            blocks: Vec::new(alloc),
        }),
    }
}

/// The first value of `-F`, whose text is a folder; None if `-F` is not given.
fn first_folder(values: &Values) -> Option<&OptionValue>
    ensures { IsFirstValue result (values_of_letter FILES values.entry.now) }
{
    values.first(FILES)
}

/// Reads the scripts that the values of `-s` give, in the order given.
pub(crate) fn read_scripts<'a, T: Tree>(
    alloc: Global,
    tree: &mut T,
    values: &'a Values,
) -> Result<Vec<Script<'a>>, MakeFault>
    // The values are those of a valid command `mkpkg`.
    requires { IsTrue (are_allowed_values (value_rules Mkpkg) values.now) }
    // The tree is only read: no file changes, no I/O error is hidden, and no call is a misuse.
    ensures tree { OnlyReads MakeFault.Disk (T.history tree.old) (T.history tree.new)
        (T.counts tree.old) (T.counts tree.new) result }
    // For each number `n` of the first read, some results of reads give this result. If the tree is
    // observable, the reads find its files.
    ensures read { (n : ℕ) → HoldsOfSomeReadsOfTree (T.history tree.old) (λ read.
        AgreesOrIsFault AreScripts result (scripts_from_read read n
        (values_of_letter SCRIPT values.entry.now))) }
{
    let mut scripts = Vec::new(alloc);
    for i in 0..values.len() {
        let value = values.get(i);
        // The values of all options are in one list.
        if value.letter != SCRIPT {
            continue;
        }
        let script = read_script(alloc, tree, value, values.script_file(i))?;
        push_script(&mut scripts, script)?;
    }
    Ok(scripts)
}

/// Adds a script at the end.
fn push_script<'a>(scripts: &mut Vec<Script<'a>>, script: Script<'a>) -> Result<(), AllocError>
    ensures { OnOk result (scripts.new.items ≡ scripts.old.items ++ script.entry ∷ []) }
{
    scripts.push(script)?;
    Ok(())
}

/// Reads the script that a value of `-s` gives as TYPE:FILE, from the file of this name.
fn read_script<'a, T: Tree>(
    alloc: Global,
    tree: &mut T,
    value: &'a OptionValue,
    file: &Name,
) -> Result<Script<'a>, MakeFault>
    // The name is that of the file in the value of `-s`.
    requires { file.now ≡ without_one_leading_dot_slash (script_file value.now.text) }
    // The tree is only read: no file changes, no I/O error is hidden, and no call is a misuse.
    ensures tree { OnlyReads MakeFault.Disk (T.history tree.old) (T.history tree.new)
        (T.counts tree.old) (T.counts tree.new) result }
    // For each number `n` of the first read, some results of reads give this result. If the tree is
    // observable, the reads find its files.
    ensures read { (n : ℕ) → HoldsOfSomeReadsOfTree (T.history tree.old) (λ read.
        AgreesOrIsFault IsScript result (script_at read n value.entry.now)) }
{
    let bytes = read_file(alloc, tree, value.place, file)?;
    let kind = value.script_type();
    Ok(Script { kind, bytes })
}
