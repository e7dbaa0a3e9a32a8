//! Laws: where the files of packages are, and which file is the database. The rules are in
//! `docs/commands.md`, "`add` and `del`", part "What is read".

ghost use Rattle.std.specs.Prelude.{◌≡◌, ◌++◌, ℕ, List, Option, Bool, Some, None, Ok, Err, [], true, false, codes};
ghost use Rattle.definition_laws.specs.answers.FoundFiles.{HasNoSlash, IsCandidateOfIndexAtPath, candidate_file_name};
ghost use Rattle.base_core.specs.Name.{is_name};
ghost use Rattle.tell_core.specs.candidate_core.Candidates.{Candidate};
ghost use Rattle.change_outcome.specs.change_inputs.Database.{Database, root_database};
ghost use Rattle.change_outcome.specs.PackageFiles.{package_file_path_of_candidate};
ghost use Rattle.dep_core.specs.Repositories.{Repository};
ghost use Rattle.report_core.specs.declared.refusal.Refusal.TheVariants.{NoDatabase};

/// The file of a candidate's package is in the folder of its index, at any depth. `index` is the
/// last part of the index's path.
pub fn a_package_is_found_in_the_folder_of_its_index()
    // The index is in a folder.
    ensures below { (repositories : List Repository) (c : Candidate) (folder index : List ℕ)
        → HasNoSlash index → IsCandidateOfIndexAtPath repositories c (folder ++ codes "/" ++ index)
        → is_name (folder ++ codes "/" ++ candidate_file_name c) ≡ true
        → package_file_path_of_candidate repositories c ≡ Some (folder ++ codes "/"
        ++ candidate_file_name c) }
    // The index is in the root itself.
    ensures top { (repositories : List Repository) (c : Candidate) (index : List ℕ)
        → HasNoSlash index → IsCandidateOfIndexAtPath repositories c index
        → is_name (candidate_file_name c) ≡ true
        → package_file_path_of_candidate repositories c ≡ Some (candidate_file_name c) }
{}

/// `root_database` has three arguments: whether a new database may be created (`--initdb`), the
/// bytes of the container, and those of the text database. If there is a container, it is the
/// database. Otherwise the text database is. A new database is created only if there is neither.
pub fn the_container_decides_before_the_text()
    // If there is a container, neither the text database nor `--initdb` matters.
    ensures container { (begins other : Bool) (file : List ℕ) (text another : Option (List ℕ))
        → root_database begins (Some file) text ≡ root_database other (Some file) another }
    // A database that is read from a container has the bytes of its file.
    ensures by_container { (begins : Bool) (file : List ℕ) (text : Option (List ℕ)) (d : Database)
        → root_database begins (Some file) text ≡ Ok d
        → (d.from_text ≡ false) × (d.file ≡ Some file) }
    // If there is only a text database, it does not matter whether a database may be created.
    ensures text { (begins other : Bool) (text : List ℕ)
        → root_database begins None (Some text) ≡ root_database other None (Some text) }
    // A database that is read from a text has no container file.
    ensures by_text { (begins : Bool) (text : List ℕ) (d : Database)
        → root_database begins None (Some text) ≡ Ok d
        → (d.from_text ≡ true) × (d.file ≡ None) }
    // Without both files, and without `--initdb`, the change is refused.
    ensures refused { root_database false None None ≡ Err NoDatabase }
    // Without both files, but with `--initdb`, the database has no packages and no file.
    ensures begun { (d : Database) → root_database true None None ≡ Ok d
        → (d.packages ≡ []) × (d.from_text ≡ false) × (d.file ≡ None) }
{}
