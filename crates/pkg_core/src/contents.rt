//! The values of a package whose front was read. The rules are in `docs/formats.md`, "Tests of a
//! container": the shape, the texts, and repeated names.

ghost use Rattle.std.specs.Prelude.{◌≡◌, true, None, IfOk, IfErr, is_none};
ghost use Rattle.adb_schema.specs.ReadFaults.{IsReadFault};
ghost use Rattle.adb_schema.specs.Soundness.{payload_fault, root_value_of_payload};
ghost use Rattle.adb_view.specs.declared.tables.Which.TheVariants as Tables;
ghost use Rattle.adb_view.specs.Adb.{payload_of};

use crate::front::Front;
use crate::laws::{bytes_are_small, tested_payloads_hold_sound_values};
use crate::pack::PackageFault;
use adb_schema::{
    Checked, PackageView, ReadFault, View, no_text_is_bad_where_each_keeps_its_rule, repeated,
};
use adb_view::{Adb, Which, shape, values_of_few_visits_have_no_fault};
use sha2::{Digest, Sha256};
use std::alloc::Global;

/// The tested values of a package in a tree. They are borrowed from the front of the package.
/// Contracts see, by `Values` of `specs/`, the plain value and its bytes.
#[derive(Clone, Copy)]
pub struct Contents<'a> {
    /// The payload of the package's first block.
    adb: Adb<'a>,
    // All tests of the payload were passed.
    ghost tested: { is_none (payload_fault Tables.Package (payload_of adb)) ≡ true },
}

impl<'a> Contents<'a> {
    ghost use Rattle.adb_schema.specs.SoundValues.{ObeysTextAndNumberRulesOfTable};
    ghost use Rattle.adb_schema.specs.Views.{package_value};
    ghost use Rattle.adb_schema.specs.SoundContainers.{IsSoundValue};
    ghost use Rattle.adb_view.specs.Plain.{IsNormal};
    ghost use Rattle.pkg_core.specs.Refusals.{IsFaultOf};
    ghost use Rattle.pkg_core.specs.Front.{front_payload};
    ghost use Rattle.pkg_core.specs.Values.{payload_of_contents, value_of_contents};
    ghost use Rattle.sha2.specs.Sha256.{sha256};

    /// Tests the values of a package whose front was read, in this order: the head of the payload,
    /// its shape, its texts, and repeated names.
    ///
    /// # Errors
    ///
    /// `Bad` with the cause of the first test that fails, or `Memory`.
    pub fn new(alloc: Global, front: &'a Front) -> Result<Contents<'a>, PackageFault>
        // The error is the first failed test of the values, or out of memory.
        ensures bad { IfErr result (λ fault. IsFaultOf fault
            (payload_fault Tables.Package (front_payload front.entry.now))) }
        // If no error is returned, no test of the values fails.
        ensures sound { IfOk result (λ _.
            payload_fault Tables.Package (front_payload front.entry.now) ≡ None) }
        // The plain value is that of the payload of the front.
        ensures value { IfOk result (λ contents. value_of_contents contents
            ≡ root_value_of_payload Tables.Package (front_payload front.entry.now)) }
        // The payload is that of the front.
        ensures payload { IfOk result (λ contents. payload_of_contents contents
            ≡ front_payload front.entry.now) }
    {
        let adb = check_payload(alloc, front.payload())?;
        Ok(Contents { adb })
    }

    /// The values of a package in a payload that passes all tests. They are not tested again, and
    /// no memory is allocated.
    pub fn open(payload: &'a [u8]) -> Contents<'a>
        // The payload passes all tests of a package.
        requires { payload_fault Tables.Package payload.now ≡ None }
        // The plain value is that of the payload.
        ensures value { value_of_contents result
            ≡ root_value_of_payload Tables.Package payload.entry.now }
        // The result has the given payload.
        ensures payload { payload_of_contents result ≡ payload.entry.now }
    {
        // The payload passes all tests, that of its head among them.
        let Ok(adb) = Adb::new(payload) else {
            unreachable!()
        };
        Contents { adb }
    }

    /// A law: each text and number of the package obeys the rule of its field. For example, the
    /// name of a folder is a path.
    pub fn values_keep_their_rules(&self)
        ensures { ObeysTextAndNumberRulesOfTable Tables.Package (value_of_contents self.now) }
    {
        // A law that the proof needs; it has no effect at run time.
        no_text_is_bad_where_each_keeps_its_rule();
    }

    /// A law: the value of a package is sound (it passes all tests) and normal.
    pub fn values_are_sound(&self)
        // The value obeys all rules of a package.
        ensures sound { IsSoundValue Tables.Package (value_of_contents self.now) }
        // All integers of the value are below 2^64. The value has no empty blob, no empty list, and
        // no null at the end of an object.
        ensures normal { IsNormal (value_of_contents self.now) }
    {
        // Laws that the proof needs; they have no effect at run time.
        bytes_are_small(self.adb.payload());
        tested_payloads_hold_sound_values();
    }

    /// The values of the package, as a view of its table.
    pub fn view(&self) -> PackageView<'a>
        ensures { package_value result ≡ value_of_contents self.now }
    {
        // A law that the proof needs; it has no effect at run time.
        values_of_few_visits_have_no_fault();
        PackageView::of(self.adb, self.adb.root())
    }

    /// The package's identity: the SHA-256 (FIPS 180-4) of the bytes of its values.
    pub fn id(&self) -> [u8; 32]
        ensures { result ≡ sha256 (payload_of_contents self.now) }
    {
        Sha256::digest(self.adb.payload())
    }
}

/// Tests the payload of a package, and returns it as an `Adb`, from which values can be read.
fn check_payload<'a>(alloc: Global, payload: &'a [u8]) -> Result<Adb<'a>, ReadFault>
    // The error is the first failed test of the values, or out of memory.
    ensures bad { IfErr result
        (λ fault. IsReadFault fault (payload_fault Tables.Package payload.entry.now)) }
    // If no error is returned, no test of the values fails.
    ensures sound { IfOk result (λ _. payload_fault Tables.Package payload.entry.now ≡ None) }
    // The result has the given payload.
    ensures payload { IfOk result (λ adb. payload_of adb ≡ payload.entry.now) }
{
    // The tests in their order: the head, the shape, the texts, and repeated names.
    let adb = Adb::new(payload)?;
    let shaped = shape(adb, Which::Package)?;
    let checked = Checked::new(alloc, shaped)?;
    match repeated(alloc, &checked)? {
        Some(cause) => Err(ReadFault::Bad(cause)),
        None => Ok(adb),
    }
}
