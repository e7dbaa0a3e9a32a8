//! The field at a place of a container: 100 times the number of a table plus the number of a field;
//! and the table of a schema. The rules are in `docs/formats.md`, "Schemas" and "Container".
ghost use Rattle.std.specs.Prelude.{◌≡◌};
ghost use Rattle.hint_core.specs.Hints.{field_hint_in_table, place_hint, schema_hint, table_numbered};

use crate::hint::Hint;
use adb_view::{Which, fields_of};
use pkg_core::table_of_schema;

/// The hint on the field at a place, which is 100 times the number of the table plus that of the
/// field.
pub(crate) fn place_hint(place: u16) -> Hint
    ensures { result ≡ place_hint place }
{
    match table_numbered(place / 100) {
        Some(table) => field_hint_in_table(place, table),
        None => Hint::Nothing,
    }
}

// The table with a number, as in `docs/formats.md`, "Schemas"; None if no table has it.
fn table_numbered(number: u16) -> Option<Which>
    ensures { result ≡ table_numbered number }
{
    match number {
        1 => Some(Which::Dep),
        2 => Some(Which::Acl),
        3 => Some(Which::PkgInfo),
        4 => Some(Which::File),
        5 => Some(Which::Dir),
        6 => Some(Which::Scripts),
        7 => Some(Which::Package),
        8 => Some(Which::Index),
        9 => Some(Which::Idb),
        10 => Some(Which::Intent),
        _ => None,
    }
}

// The hint on the field at a place, whose table was found; none if this table has no such field.
// Fields are counted from 1.
fn field_hint_in_table(place: u16, table: Which) -> Hint
    ensures { result ≡ field_hint_in_table place table }
{
    // The number of the field in its table, counted from 1.
    let number = usize::from(place % 100);
    if number == 0 {
        return Hint::Nothing;
    }
    match fields_of(table).get(number - 1) {
        Some(field) => Hint::Field {
            place,
            table,
            name: field.name,
        },
        None => Hint::Nothing,
    }
}

/// The hint on a schema: the table at the root of a container with this schema, if it is one of the
/// four.
pub(crate) fn schema_hint(found: u32) -> Hint
    ensures { result ≡ schema_hint found }
{
    match table_of_schema(found) {
        Some(table) => Hint::Schema { table },
        None => Hint::UnknownSchema,
    }
}
