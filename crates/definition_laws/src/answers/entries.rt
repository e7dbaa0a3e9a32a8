//! Laws: when the bytes of a file agree with the file's entry, and which files are protected. The
//! rules are in `docs/commands.md`, "What a change does with files", part "Configuration files".

ghost use Rattle.std.specs.Prelude.{◌≡◌, ◌≢◌, ◌↔◌, ℕ, List, [], ◌++◌, codes, Option, Some, true, false};
ghost use Rattle.adb_view.specs.Plain.{Plain};
ghost use Rattle.definition_laws.specs.answers.EntryFields.{GiveSameSizeDigestAndTarget, HasDigestIfLengthIsKnown, MakesBytesAsTargetAfterSymlinkMark, digest_field_of_entry, size_field_of_entry, target_field_of_entry};
ghost use Rattle.audit_core.specs.file_guard.AsListed.{are_sizes_hashes_targets_equal, is_as_listed};
ghost use Rattle.change_outcome.specs.own_core.Fate.{is_protected_path};
ghost use Rattle.change_outcome.specs.own_core.FilesAfter.{is_present_and_modified_from_entry};

/// Two entries agree exactly if they give the same size, the same digest and the same target.
pub fn two_entries_agree_exactly_if_size_digest_and_target_are_equal()
    ensures { (a b : Plain) → (are_sizes_hashes_targets_equal a b ≡ true)
        ↔ GiveSameSizeDigestAndTarget a b }
{}

/// The bytes of a file are as its entry lists them exactly if one of three cases holds. The entry
/// gives a link target, and the bytes represent this link. The entry gives no target but a digest,
/// and the bytes have this digest. The entry gives neither, its size is 0, and there are no bytes.
pub fn a_file_is_as_listed_exactly_if_it_has_the_link_or_the_digest_of_its_entry()
    // The entry has a link target.
    ensures link { (entry : Plain) (bytes : List ℕ) → target_field_of_entry entry ≢ []
        → (is_as_listed entry bytes ≡ true)
        ↔ MakesBytesAsTargetAfterSymlinkMark (target_field_of_entry entry) bytes }
    // The entry has no link target, but a digest.
    ensures digest { (entry : Plain) (bytes : List ℕ) → target_field_of_entry entry ≡ []
        → digest_field_of_entry entry ≢ []
        → (is_as_listed entry bytes ≡ true)
        ↔ HasDigestIfLengthIsKnown (digest_field_of_entry entry) bytes }
    // The entry has neither: then only an empty file of size 0 is as listed.
    ensures neither { (entry : Plain) (bytes : List ℕ) → target_field_of_entry entry ≡ []
        → digest_field_of_entry entry ≡ []
        → (is_as_listed entry bytes ≡ true) ↔ ((size_field_of_entry entry ≡ 0) × (bytes ≡ [])) }
{}

/// A file is modified exactly if it is present and its bytes are not as its entry lists them.
pub fn a_file_is_modified_exactly_if_it_is_present_and_not_as_listed()
    ensures { (entry : Plain) (found : Option (List ℕ))
        → (is_present_and_modified_from_entry entry found ≡ true)
        ↔ ((bytes : List ℕ) × (found ≡ Some bytes) × (is_as_listed entry bytes ≡ false)) }
{}

/// A path is protected exactly if it begins with `etc/`.
pub fn a_path_is_protected_exactly_if_it_is_below_etc()
    ensures { (path : List ℕ)
        → (is_protected_path path ≡ true) ↔ ((rest : List ℕ) × (path ≡ codes "etc/" ++ rest)) }
{}
