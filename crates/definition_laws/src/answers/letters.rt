//! Laws: which fields the packages of a text database get when it is taken over. The rules are in
//! `docs/formats.md`, "Text database of version 2".

ghost use Rattle.std.specs.Prelude.{◌≡◌, ◌↔◌, ℕ, List, Some, codes, map};
ghost use Rattle.adb_view.specs.Plain.{null};
ghost use Rattle.adb_view.specs.declared.tables.Which.TheVariants.{File, Idb, Package, PkgInfo};
ghost use Rattle.definition_laws.specs.answers.TextLetters.{BeginsWithUnlistedLetterAndColon, HasFieldValuesOfLinesWithItsLetter, record_with_lines};
ghost use Rattle.definition_laws.specs.making.NamedFields.{entries_of_field_named, field_named};
ghost use Rattle.change_outcome.specs.v2_core.Database.{listed_file_value, record_value, database_value_of_records};
ghost use Rattle.change_outcome.specs.v2_core.Records.{ListedFile, Record, empty_record};
ghost use Rattle.change_outcome.specs.v2_core.Lines.{other_line, record_line_of};
ghost use Rattle.change_outcome.specs.v2_core.declared.field.InfoField.{InfoField};

use dep_core::{read_texts_are_spelled, spelled_texts_are_read};

/// Each field of a package has the values that the lines with the field's letter give. A list has
/// all values, in their order. Any other field has the value of its one line, if there is one.
pub fn each_letter_gives_its_field()
    ensures { (lines : List (List ℕ)) (r : Record) (f : InfoField)
        → record_with_lines empty_record lines ≡ Some r
        → HasFieldValuesOfLinesWithItsLetter f lines (record_value r) }
{
    // Laws that the proof needs; they have no effect at run time.
    read_texts_are_spelled();
    spelled_texts_are_read();
}

/// A line is skipped (`other_line`) exactly if it begins with one byte and a colon, and this byte
/// is no letter of the table in `docs/formats.md`.
pub fn a_line_is_dropped_if_its_letter_is_not_listed()
    ensures { (line : List ℕ) → (record_line_of line ≡ Some other_line)
        ↔ BeginsWithUnlistedLetterAndColon line }
{}

/// Fields for which a text database has no letter are null in its packages.
pub fn what_no_letter_gives_is_null()
    // A package has neither scripts nor triggers.
    ensures scripts { (r : Record)
        → (field_named Package (codes "scripts") (record_value r) ≡ null)
        × (field_named Package (codes "triggers") (record_value r) ≡ null) }
    // The information of a package has none of these four fields.
    ensures info { (r : Record)
        → (let info = field_named Package (codes "info") (record_value r) in
        (field_named PkgInfo (codes "file-size") info ≡ null)
        × (field_named PkgInfo (codes "recommends") info ≡ null)
        × (field_named PkgInfo (codes "layer") info ≡ null)
        × (field_named PkgInfo (codes "tags") info ≡ null)) }
    // The entry of a file has neither size, nor time, nor link target.
    ensures file { (f : ListedFile)
        → (let file = listed_file_value f in
        (field_named File (codes "size") file ≡ null)
        × (field_named File (codes "mtime") file ≡ null)
        × (field_named File (codes "target") file ≡ null)) }
{}

/// A text becomes one package for each of its records, in their order.
pub fn each_record_is_a_package_in_order()
    ensures { (records : List Record)
        → entries_of_field_named Idb (codes "packages") (database_value_of_records records)
        ≡ map record_value records }
{}
