//! Laws: which of two packages takes over the files that both list. The rule is in
//! `docs/commands.md`, "Files that several packages list".

ghost use Rattle.std.specs.Prelude.{◌≡◌, ◌↔◌, ◌<◌, true, false};
ghost use Rattle.std.specs.declared.cmp.Ordering.TheVariants.{Less};
ghost use Rattle.change_outcome.specs.adb_fields.Repeated.{package_name};
ghost use Rattle.adb_view.specs.Plain.{Plain};
ghost use Rattle.definition_laws.specs.answers.ReplacesEntries.{HasReplacesEntryForOther};
ghost use Rattle.base_core.specs.ByteOrder.{bytes_cmp};
ghost use Rattle.tell_core.specs.file_owners.Replaces.{does_first_list_second_in_replaces, replacing_priority, takes_over, package_version_text};

/// An entry of the field `replaces` of a package x names a package y exactly by the own name and
/// version of y. What y provides does not count.
pub fn a_package_is_replaced_by_its_own_name_and_version()
    // x names y exactly if an entry of its `replaces` has the name of y and accepts its version.
    ensures named { (x y : Plain) → (does_first_list_second_in_replaces x y ≡ true)
        ↔ HasReplacesEntryForOther x y }
    // So x names y exactly if it names any package z with the same name and version.
    ensures own { (x y z : Plain) → package_name y ≡ package_name z
        → package_version_text y ≡ package_version_text z
        → does_first_list_second_in_replaces x y ≡ does_first_list_second_in_replaces x z }
{}

/// A package takes over the files of one that its `replaces` names. If each names the other, the
/// one with the greater priority takes over, and at equal priority the one with the later name.
pub fn of_two_packages_that_name_each_other_one_is_preferred()
    // A package x that does not name y in its `replaces` does not take over the files of y.
    ensures unnamed { (x y : Plain) → does_first_list_second_in_replaces x y ≡ false
        → takes_over x y ≡ false }
    // If x names y, and y does not name x, x takes over the files of y.
    ensures alone { (x y : Plain) → does_first_list_second_in_replaces x y ≡ true
        → does_first_list_second_in_replaces y x ≡ false → takes_over x y ≡ true }
    // If each names the other, the package with the greater priority takes over.
    ensures priority { (x y : Plain) → does_first_list_second_in_replaces x y ≡ true
        → does_first_list_second_in_replaces y x ≡ true
        → replacing_priority y < replacing_priority x → takes_over x y ≡ true }
    // If their priorities are equal, the package with the later name in byte order takes over.
    ensures later { (x y : Plain) → does_first_list_second_in_replaces x y ≡ true
        → does_first_list_second_in_replaces y x ≡ true
        → replacing_priority x ≡ replacing_priority y
        → bytes_cmp (package_name y) (package_name x) ≡ Less → takes_over x y ≡ true }
{}
