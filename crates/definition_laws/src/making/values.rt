//! Which values `-I` of `mkpkg` accepts, what `--script` gives, and the values of a package and of
//! an index, field by field: laws over the definitions of `make_info`, `package_files` and
//! `make_core`.
//! The rules are in `docs/commands.md`, "`mkpkg`" (the table of fields) and "`mkndx PACKAGE..`";
//! the names of fields in `docs/formats.md`, "Schemas".
ghost use Rattle.make_core.specs.adb_copy.Zeros.{without_zeros};
ghost use Rattle.adb_view.specs.Values.{entry_at_index, int_in, text_in};
ghost use Rattle.adb_view.specs.declared.tables.Which.TheVariants.{Dep, File, Index, Package, PkgInfo};
ghost use Rattle.adb_view.specs.Plain.{Plain, array_or_null, blob_or_null, int, null};
ghost use Rattle.command_core.specs.Values.{script_file, script_type};
ghost use Rattle.command_core.specs.declared.values.OptionValue.{OptionValue};
ghost use Rattle.dep_core.specs.Dependency.{Dependency};
ghost use Rattle.dep_core.specs.Value.{dep_value};
ghost use Rattle.make_core.specs.Entries.{index_entry_of_package_file};
ghost use Rattle.make_core.specs.Index.{value_of_index};
ghost use Rattle.make_core.specs.make_info.FieldTexts.{field_text_in};
ghost use Rattle.make_core.specs.make_info.Fields.{TextNumberOrDependency, kind_of_field, values_by_kind, text, number, need};
ghost use Rattle.make_core.specs.make_info.Information.{offends, plain_value};
ghost use Rattle.make_core.specs.make_info.Values.{number_or_null, plains_of_list};
ghost use Rattle.make_core.specs.make_info.declared.field.Field.{Field};
ghost use Rattle.definition_laws.specs.making.MadePackages.{package_in_container};
ghost use Rattle.definition_laws.specs.making.NamedFields.{field_named};
ghost use Rattle.definition_laws.specs.making.OptionGrammar.{IsAcceptedInfoOption, FieldTextGivesValues, option_text};
ghost use Rattle.definition_laws.specs.making.SourceBytes.{IsLinkTo, AreBytesOfNoLink};
ghost use Rattle.make_core.specs.package_files.Package.{value_of_file};
ghost use Rattle.make_core.specs.pkg_core.Whole.{payload_sha256_of_package_file};
ghost use Rattle.sha2.specs.Sha256.{sha256};
ghost use Rattle.std.specs.List.{list_any};
ghost use Rattle.std.specs.Prelude.{◌≡◌, ◌↔◌, ◌==◌, ◌++◌, ◌∷◌, ℕ, Bool, false, List, Some, ◌≢◌, codes, length};

use dep_core::{read_texts_are_spelled, spelled_texts_are_read};

/// A text gives a value to a field exactly if it is FIELD:VALUE: the field's name, a colon, and the
/// value.
pub fn a_text_gives_a_value_to_a_field()
    ensures { (t value : List ℕ) (f : Field)
        → field_text_in t ≡ Some (record { field = f; value = value }) ↔ t ≡ option_text f value }
{}

/// A text gives the values `said` to a field by *values_by_kind* exactly if it does so by the
/// grammar of the field, which is defined here without the program's parsers.
pub fn a_value_is_taken_by_the_grammar_of_its_field()
    ensures { (f : Field) (value : List ℕ) (said : List TextNumberOrDependency)
        → values_by_kind (kind_of_field f) value ≡ Some said ↔ FieldTextGivesValues f value said }
{
    // Laws that the proof needs; they compute nothing.
    read_texts_are_spelled();
    spelled_texts_are_read();
}

/// A value of `-I` offends (is refused) after the values `before` exactly if the grammar of `-I`
/// does not accept it there.
pub fn an_option_offends_unless_it_is_taken()
    ensures { (too_long : Bool) (before : List OptionValue) (option : OptionValue)
        → offends too_long before option ≡ false ↔ IsAcceptedInfoOption too_long before option }
{
    // Laws that the proof needs; they compute nothing.
    read_texts_are_spelled();
    spelled_texts_are_read();
}

/// A script is given as TYPE:FILE: the type ends before the first colon (58), and all after it is
/// the file's name, with any further colons.
pub fn a_script_is_given_as_its_type_and_its_file()
    ensures { (type file : List ℕ) → list_any (λ b. b == 58) type ≡ false
        → (script_type (type ++ 58 ∷ file) ≡ type) × (script_file (type ++ 58 ∷ file) ≡ file) }
{}

/// The entry of a file describes its bytes: for a link the target and neither size nor hash;
/// otherwise their number and their SHA-256, and no target.
pub fn an_entry_describes_the_bytes_of_its_file()
    // A link has its target, and neither size nor hash. The bytes 0 and 160 are the kind 0xa000,
    // little-endian.
    ensures link { (name bytes target : List ℕ) → IsLinkTo target bytes
        → (let file = value_of_file (record { name = name; bytes = bytes }) in
        (field_named File (codes "target") file ≡ blob_or_null (0 ∷ 160 ∷ target))
        × (field_named File (codes "size") file ≡ null)
        × (field_named File (codes "hashes") file ≡ null)) }
    // A regular file has its size and its SHA-256, and no target.
    ensures regular { (name bytes : List ℕ) → AreBytesOfNoLink bytes
        → (let file = value_of_file (record { name = name; bytes = bytes }) in
        (field_named File (codes "target") file ≡ null)
        × (int_in (field_named File (codes "size") file) ≡ length bytes)
        × (field_named File (codes "hashes") file ≡ blob_or_null (sha256 bytes))) }
{}

/// The value of an option is stored unchanged: a text, a number, also 0, and for a dependency the
/// name, the version and the match number.
pub fn a_value_is_stored_as_given()
    // A text is stored as its bytes, and an empty one as NULL.
    ensures text { (bytes : List ℕ) → plain_value (text bytes) ≡ blob_or_null bytes }
    // A number is stored as an integer, also 0.
    ensures number { (n : ℕ) → plain_value (number n) ≡ int n }
    // A dependency is stored as its name, its version and its match number.
    ensures need { (d : Dependency)
        → (let told = plain_value (need d) in
        (field_named Dep (codes "name") told ≡ blob_or_null (dep_value d).name)
        × (field_named Dep (codes "version") told ≡ blob_or_null (dep_value d).version)
        × (field_named Dep (codes "match") told ≡ number_or_null (dep_value d).matching)) }
{}

/// An entry of an index has the package's id and the length of its file. Each other field, by its
/// name, is the one of the package's information, without zeros.
pub fn an_entry_has_the_values_of_its_package()
    // The field `hashes` is the package's id.
    ensures id { (file : List ℕ)
        → field_named PkgInfo (codes "hashes") (index_entry_of_package_file file)
        ≡ blob_or_null (payload_sha256_of_package_file file) }
    // The field `file-size` is the length of the package's file.
    ensures length { (file : List ℕ)
        → int_in (field_named PkgInfo (codes "file-size") (index_entry_of_package_file file))
        ≡ length file }
    // Each other field is that of the package's information, without zeros.
    ensures others { (file name : List ℕ) → name ≢ codes "hashes" → name ≢ codes "file-size"
        → field_named PkgInfo name (index_entry_of_package_file file) ≡ without_zeros
        (field_named PkgInfo name (field_named Package (codes "info")
        (package_in_container file))) }
{}

/// What is read of `without_zeros v` is what is read of `v`: the same number and text, and the same
/// entries, each without zeros. It is never the number 0.
pub fn values_without_zeros_tell_the_same()
    // The number that is read is the same.
    ensures number { (v : Plain) → int_in (without_zeros v) ≡ int_in v }
    // The text that is read is the same.
    ensures text { (v : Plain) → text_in (without_zeros v) ≡ text_in v }
    // Each entry is that of the value `v`, without zeros.
    ensures entries { (v : Plain) (i : ℕ)
        → entry_at_index (without_zeros v) i ≡ without_zeros (entry_at_index v i) }
    // The result is not the number 0; a 0 has become Null.
    ensures none_zero { (v : Plain) → without_zeros v ≢ int 0 }
{}

/// The value of an index has the given description in its field `description`, and the given
/// entries in its field `packages`.
pub fn an_index_has_its_description_and_packages()
    ensures { (description : List ℕ) (entries : List Plain)
        → (field_named Index (codes "description") (value_of_index description entries)
        ≡ blob_or_null description)
        × (field_named Index (codes "packages") (value_of_index description entries)
        ≡ array_or_null (plains_of_list entries)) }
{}
