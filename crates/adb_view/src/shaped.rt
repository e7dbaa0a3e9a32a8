//! A payload whose shape was tested, which `shape` of `walk` returns. The rule is in
//! `docs/formats.md`, "The shape".

ghost use Rattle.std.specs.Prelude.{◌≡◌, true, is_none};
ghost use Rattle.adb_view.specs.Adb.{payload_of};
ghost use Rattle.adb_view.specs.Head.{root_word_of_payload};
ghost use Rattle.adb_view.specs.Schema.{shape_of};
ghost use Rattle.adb_view.specs.Walk.{shape_fault};
ghost use Rattle.adb_view.specs.Values.{is_sound};
ghost use Rattle.adb_view.specs.declared.tables.Kind.TheVariants as Kinds;

use crate::adb::Adb;
use crate::tables::Which;

/// A payload whose values have the shape of a table: each word that a walk from its root visits can
/// be read.
#[derive(Clone, Copy)]
pub struct Shaped<'a> {
    /// The payload that was walked.
    adb: Adb<'a>,
    /// The table of the payload's root.
    which: Which,
    // The root has a plain value, as an object of the table.
    ghost sound: { is_sound (payload_of adb) (Kinds.Obj which) (root_word_of_payload
        (payload_of adb)) ≡ true },
    // The walk from the root finds no fault, so the number of visits is within its limit.
    ghost few: { is_none (shape_fault (payload_of adb) (shape_of (Kinds.Obj which))
        (root_word_of_payload (payload_of adb))) ≡ true },
}

impl<'a> Shaped<'a> {
    ghost use Rattle.adb_view.specs.ShapedPayload.{adb_of, table_of};

    /// The payload that was walked as an object of this table, without a fault.
    pub(crate) fn of(adb: Adb<'a>, which: Which) -> Shaped<'a>
        // The root of the payload has a plain value, as an object of the table.
        requires sound { is_sound (payload_of adb) (Kinds.Obj which) (root_word_of_payload
            (payload_of adb))
            ≡ true }
        // The walk from the root finds no fault.
        requires few { is_none (shape_fault (payload_of adb) (shape_of (Kinds.Obj which))
            (root_word_of_payload (payload_of adb))) ≡ true }
        // The result has this payload.
        ensures walked { adb_of result ≡ adb.entry }
        // The result has this table.
        ensures table { table_of result ≡ which }
    {
        Shaped { adb, which }
    }

    /// The opened payload that was walked.
    pub fn adb(&self) -> Adb<'a>
        ensures { result ≡ adb_of self.now }
    {
        self.adb
    }

    /// The table by which the root of the payload was read in the walk.
    pub fn which(&self) -> Which
        ensures { result ≡ table_of self.now }
    {
        self.which
    }
}
