//! Laws: which folders and files the packages of a text database list. The rules are in
//! `docs/formats.md`, "Text database of version 2", the rows F, M, R, a and Z.

ghost use Rattle.std.specs.Prelude.{◌≡◌, ℕ, List, Some, codes, map, option_map};
ghost use Rattle.adb_view.specs.Plain.{blob_or_null, int};
ghost use Rattle.adb_view.specs.declared.tables.Which.TheVariants.{Acl, Dir, File, Package};
ghost use Rattle.definition_laws.specs.answers.TextFiles.{folders_of_record_lines};
ghost use Rattle.definition_laws.specs.answers.TextLetters.{letter_line, record_with_lines};
ghost use Rattle.definition_laws.specs.making.NamedFields.{entries_of_field_named, field_named};
ghost use Rattle.change_outcome.specs.v2_core.Database.{listed_access_value, listed_file_value, listed_folder_value, listed_hash_value, record_value};
ghost use Rattle.change_outcome.specs.v2_core.Records.{ListedFile, ListedFolder, Record, empty_record};
ghost use Rattle.change_outcome.specs.v2_core.Accesses.{Access, access_in};
ghost use Rattle.change_outcome.specs.v2_core.InfoValues.{sha1_in_text};
ghost use Rattle.change_outcome.specs.v2_core.Lines.{RecordLine, file_access_line, file_hash_line, file_line_if_one_part, folder_access_line, folder_line_if_path, record_line_of};

/// The meaning of each letter for folders and files. The access of a folder or file is its mode,
/// user and group.
pub fn each_path_letter_has_its_meaning()
    // A line `F:NAME` begins a folder.
    ensures folder { (name : List ℕ)
        → record_line_of (letter_line (codes "F") name) ≡ folder_line_if_path name }
    // A line `M:` gives the access of the folder.
    ensures folder_access { (value : List ℕ) → record_line_of (letter_line (codes "M") value)
        ≡ option_map folder_access_line (access_in value) }
    // A line `R:NAME` begins a file.
    ensures file { (name : List ℕ)
        → record_line_of (letter_line (codes "R") name) ≡ file_line_if_one_part name }
    // A line `a:` gives the access of the file.
    ensures file_access { (value : List ℕ) → record_line_of (letter_line (codes "a") value)
        ≡ option_map file_access_line (access_in value) }
    // A line `Z:` gives the hash of the file, a SHA-1.
    ensures hash { (value : List ℕ) → record_line_of (letter_line (codes "Z") value)
        ≡ option_map file_hash_line (sha1_in_text value) }
{}

/// If each line of `lines` has the meaning at the same index of `meanings`, and together they make
/// the record `r`, its folders are those that the meanings list: a folder for each line that begins
/// one, with the access and the files that the lines up to the next folder give.
pub fn lines_list_folders_and_their_files()
    ensures { (lines : List (List ℕ)) (meanings : List RecordLine) (r : Record)
        → map record_line_of lines ≡ map Some meanings
        → record_with_lines empty_record lines ≡ Some r
        → r.folders ≡ folders_of_record_lines meanings }
{}

/// In which field of a package's value each part of a listed folder or file is.
pub fn folders_and_files_have_their_fields()
    // The folders of a record are the entries of the field `paths`, in their order.
    ensures folders { (r : Record) → entries_of_field_named Package (codes "paths") (record_value r)
        ≡ map listed_folder_value r.folders }
    // A folder has its name, its access and, in their order, its files.
    ensures folder { (f : ListedFolder)
        → (field_named Dir (codes "name") (listed_folder_value f) ≡ blob_or_null f.name)
        × (field_named Dir (codes "acl") (listed_folder_value f) ≡ listed_access_value f.access)
        × (entries_of_field_named Dir (codes "files") (listed_folder_value f)
        ≡ map listed_file_value f.files) }
    // A file has its name, its access and its hash.
    ensures file { (f : ListedFile)
        → (field_named File (codes "name") (listed_file_value f) ≡ blob_or_null f.name)
        × (field_named File (codes "acl") (listed_file_value f) ≡ listed_access_value f.access)
        × (field_named File (codes "hashes") (listed_file_value f) ≡ listed_hash_value f.hash) }
    // An access has its mode, its user and its group.
    ensures access { (a : Access)
        → (field_named Acl (codes "mode") (listed_access_value (Some a)) ≡ int a.mode)
        × (field_named Acl (codes "user") (listed_access_value (Some a)) ≡ blob_or_null a.user)
        × (field_named Acl (codes "group") (listed_access_value (Some a)) ≡ blob_or_null a.group) }
    // The value of a hash has its bytes; it is null if there are none.
    ensures hash { (hash : List ℕ) → listed_hash_value (Some hash) ≡ blob_or_null hash }
{}
