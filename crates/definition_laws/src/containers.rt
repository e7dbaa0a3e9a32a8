//! Laws about the fault that is reported of a container: it is that of the first failed test, in
//! the order in which the format lists the tests. The order is in `docs/formats.md`, "Container"
//! and "Tests of a container".
//!
//! The laws cite the definitions of `specs/containers/`, and those of the crates that read
//! containers.

ghost use Rattle.adb_block.specs.Header.{schema_of_header};
ghost use Rattle.adb_view.specs.declared.tables.Which.{Which};
ghost use Rattle.base_core.specs.declared.cause.Cause.{Cause};
ghost use Rattle.definition_laws.specs.containers.HeaderFaults.{IsHeaderFault};
ghost use Rattle.definition_laws.specs.containers.TestsInOrder.{IsContainerFault, IsContainerFaultForTable, PassesEveryContainerTest};
ghost use Rattle.pkg_core.specs.Whole.{container_fault, container_fault_of_table};
ghost use Rattle.std.specs.Prelude.{◌≡◌, ◌↔◌, ℕ, Err, List, Some, None};

/// A law: the fault that is reported of a file's header is the first of these: fewer than four
/// bytes, a compressed container, no container, fewer than eight bytes.
pub fn the_first_fault_of_a_header_is_reported()
    ensures { (file : List ℕ) (c : Cause) → schema_of_header file ≡ Err c → IsHeaderFault file c }
{}

/// A law: the fault that is reported of a container is that of the first failed test, in this
/// order: the header, the schema, the first block, the head of its payload, the shapes of the
/// values, their texts and numbers, repeated names, and the further blocks.
pub fn the_first_fault_of_a_container_is_reported()
    // For a file that must have a certain table at its root.
    ensures table { (which : Which) (file : List ℕ) (c : Cause)
        → container_fault_of_table which file ≡ Some c → IsContainerFaultForTable which file c }
    // For a file with any of the four schemas.
    ensures any { (file : List ℕ) (c : Cause)
        → container_fault file ≡ Some c → IsContainerFault file c }
{}

/// A law: no fault of a container is reported exactly if the container passes every test.
pub fn no_fault_is_reported_exactly_if_every_test_holds()
    ensures { (file : List ℕ) → (container_fault file ≡ None) ↔ PassesEveryContainerTest file }
{}
