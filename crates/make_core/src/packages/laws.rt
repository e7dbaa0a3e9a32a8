//! What a package is, in the terms of the format: laws over the definitions of `package_files`.
//! The rules are in `docs/commands.md`, "`mkpkg`", and in `docs/formats.md`, "Schemas", tables 4 to
//! 7, by the names of the fields there.
ghost use Rattle.adb_view.specs.Schema.{field_name_text, table};
ghost use Rattle.adb_view.specs.declared.tables.Which.TheVariants.{Dir, File, Package, Scripts};
ghost use Rattle.adb_view.specs.Plain.{Plain, array_or_null, blob_or_null, null};
ghost use Rattle.command_core.specs.Values.{script_types};
ghost use Rattle.package_files.specs.make_info.declared.field.Field.TheVariants.{ReplacesPriority};
ghost use Rattle.package_files.specs.make_info.Fields.{field_word};
ghost use Rattle.package_files.specs.make_info.Named.{value_by_name};
ghost use Rattle.package_files.specs.make_info.Values.{number_or_null, plains_of_list, size_or_null_if_zero};
ghost use Rattle.package_files.specs.Folders.{all_folders_above, folder_listings_by_tree_names, folders_above};
ghost use Rattle.package_files.specs.Package.{FILE_MODE, FOLDER_MODE, Script, access_value, file_fields, folder_fields, is_link_file, kind_of_file, link_text, package_fields, script_fields, script_bytes_of_field};
ghost use Rattle.package_files.specs.declared.file.FileKind.{FileKind};
ghost use Rattle.sha2.specs.Sha256.{sha256};
ghost use Rattle.std.specs.Cmp.Lexicographic.{slice_cmp};
ghost use Rattle.std.specs.List.{flat_map};
ghost use Rattle.std.specs.List.Sorted.{IsPermutation, IsStrictlySortedBy};
ghost use Rattle.std.specs.Ordering.{nat_cmp};
ghost use Rattle.std.specs.Prelude.{◌≡◌, ◌∷◌, ℕ, All, Any, Contains, List, Option, Some, codes, false, length, map, true};

/// The types that `--script` may name are the fields of a package's scripts, in their order, and a
/// script is at the field of its type. The value of `-I` for the priority in replacing is at the
/// package's field of that name.
pub fn a_part_is_in_the_field_of_its_name()
    // The types of `-s` are the names of the fields of table 6, in their order.
    ensures types { script_types ≡ map (λ field. field_name_text field.name) (table Scripts) }
    // A script is at the field of its type.
    ensures scripts { (scripts : List Script) → All (λ type.
        value_by_name type (table Scripts) (script_fields scripts)
        ≡ Some (blob_or_null (script_bytes_of_field scripts type))) script_types }
    // The priority in replacing is at the package's field of that name.
    ensures priority { (info : Plain) (paths : List Plain) (scripts : List Script)
        (triggers : List (List ℕ)) (priority : Option ℕ)
        → value_by_name (field_word ReplacesPriority) (table Package)
        (package_fields info paths scripts triggers priority)
        ≡ Some (number_or_null priority) }
{}

/// The folders of a package are in byte order, so none is repeated. They are exactly those above a
/// path, at any depth. The files in them are the listed names, each once.
pub fn each_name_is_in_one_folder()
    // The files of all folders are the listed names, each once.
    ensures names { (dir : List ℕ) (names : List (List ℕ))
        → IsPermutation names (flat_map (λ folder. folder.files)
        (folder_listings_by_tree_names dir names)) }
    // The folders are in byte order of their names.
    ensures rise { (dir : List ℕ) (names : List (List ℕ)) → IsStrictlySortedBy (slice_cmp nat_cmp)
        (map (λ folder. folder.name) (folder_listings_by_tree_names dir names)) }
    // Each folder of a package is above one of the paths.
    ensures over { (paths : List (List ℕ)) (folder : List ℕ)
        → Contains (all_folders_above paths) folder
        → Any (λ path. Contains (folders_above path) folder) paths }
    // Each folder that is above one of the paths is a folder of the package.
    ensures whole { (paths : List (List ℕ)) (path folder : List ℕ)
        → Contains paths path → Contains (folders_above path) folder
        → Contains (all_folders_above paths) folder }
{}

/// The fields of a file in a package describe its bytes: for a link its target and neither size nor
/// hash, for another file the number of its bytes and their SHA-256, and no target. All may read
/// each file and root may write it (0644); a folder may be entered too (0755).
pub fn the_fields_of_a_file_are_those_of_its_bytes()
    // A regular file has its size and its SHA-256, and no target.
    ensures regular { (name bytes : List ℕ) → is_link_file bytes ≡ false
        → (value_by_name (codes "size") (table File) (file_fields name (kind_of_file bytes))
        ≡ Some (size_or_null_if_zero (length bytes)))
        × (value_by_name (codes "hashes") (table File) (file_fields name (kind_of_file bytes))
        ≡ Some (blob_or_null (sha256 bytes)))
        × (value_by_name (codes "target") (table File) (file_fields name (kind_of_file bytes))
        ≡ Some null) }
    // A link has its target (0 and 160 are the kind 0xa000, little-endian), and neither size nor
    // hash.
    ensures link { (name bytes : List ℕ) → is_link_file bytes ≡ true
        → (value_by_name (codes "size") (table File) (file_fields name (kind_of_file bytes))
        ≡ Some null)
        × (value_by_name (codes "hashes") (table File) (file_fields name (kind_of_file bytes))
        ≡ Some null)
        × (value_by_name (codes "target") (table File) (file_fields name (kind_of_file bytes))
        ≡ Some (blob_or_null (0 ∷ 160 ∷ link_text bytes))) }
    // Each file has its name and its access list.
    ensures named { (name : List ℕ) (kind : FileKind)
        → (value_by_name (codes "name") (table File) (file_fields name kind)
        ≡ Some (blob_or_null name))
        × (value_by_name (codes "acl") (table File) (file_fields name kind)
        ≡ Some (access_value FILE_MODE)) }
    // A folder has its name, its access list, and its files.
    ensures folder { (name : List ℕ) (files : List Plain)
        → (value_by_name (codes "name") (table Dir) (folder_fields name files)
        ≡ Some (blob_or_null name))
        × (value_by_name (codes "acl") (table Dir) (folder_fields name files)
        ≡ Some (access_value FOLDER_MODE))
        × (value_by_name (codes "files") (table Dir) (folder_fields name files)
        ≡ Some (array_or_null (plains_of_list files))) }
{}
