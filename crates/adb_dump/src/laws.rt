//! Theorems about the definitions, for every value, each proved as the contract of an empty
//! function. The rule is in `docs/formats.md`, "Dump text". Normal values are defined in "Values"
//! there.
ghost use Rattle.std.specs.Prelude.{◌≡◌, ◌<◌, ℕ, All, List, IfSome, Ok, Some};
ghost use Rattle.adb_view.specs.Plain.{Plain, IsNormal, plain_of};
ghost use Rattle.adb_view.specs.Schema.{shape_of};
ghost use Rattle.adb_view.specs.declared.tables.Which.{Which};
ghost use Rattle.adb_view.specs.declared.tables.Kind.TheVariants as Kinds;
ghost use Rattle.adb_dump.specs.Dump.{Line, dump_lines, dump_text, dump_text_of_lines, object_lines_by_table};
ghost use Rattle.adb_dump.specs.ReadBack.{lines_of_text_if_all_ended, value_of_lines_below_schema_line};
ghost use Rattle.adb_dump.specs.Values.{IsOfBytes, IsNormalValueOfTable};

use adb_view::{values_are_normal, values_have_their_shape};

/// A law: two normal values of one table that have the same dump text are equal.
pub fn values_of_one_text_are_equal()
    ensures { (which : Which) (v u : Plain)
        → IsNormalValueOfTable which v → IsOfBytes v → IsNormalValueOfTable which u → IsOfBytes u
        → dump_text which v ≡ dump_text which u → v ≡ u }
{}

/// A law: the lines of each normal value of a table are read back as this value.
pub fn lines_of_values_are_read_back()
    ensures { (which : Which) (v : Plain) → IsNormalValueOfTable which v → IsOfBytes v
        → value_of_lines_below_schema_line which (object_lines_by_table which v) ≡ Ok v }
{}

/// A law: if lines are read as a value of a table, this value is a normal one of the table, and the
/// lines are those of this value.
pub fn only_lines_of_values_are_read()
    ensures { (which : Which) (ls : List Line) (v : Plain)
        → value_of_lines_below_schema_line which ls
        ≡ Ok v
        → (object_lines_by_table which v ≡ ls) × IsNormalValueOfTable which v }
{}

/// A law: the text of a normal value is split into exactly its lines, and the lines that a text is
/// split into make up that text.
pub fn texts_are_split_into_their_lines()
    // The text of a normal value is split into the lines of this value.
    ensures split { (which : Which) (v : Plain) → IsNormal v
        → lines_of_text_if_all_ended (dump_text which v) ≡ Some (dump_lines which v) }
    // The lines into which a text is split make up the text.
    ensures joined { (text : List ℕ) (ls : List Line) → lines_of_text_if_all_ended text ≡ Some ls
        → dump_text_of_lines ls ≡ text }
{}

/// A law: each plain value that is read from bytes, as an object of a table, is a normal value of
/// that table, and its blobs are bytes. So two payloads that have the same table and the same text
/// have the same value.
pub fn values_found_in_bytes_are_of_their_table()
    ensures { (payload : List ℕ) → All (λ b. b < 256) payload → (which : Which) (word : ℕ)
        → IfSome (plain_of payload (shape_of (Kinds.Obj which)) word)
        (λ v. IsNormalValueOfTable which v × IsOfBytes v) }
{
    values_are_normal();
    values_have_their_shape();
}
