//! Laws: what follows from the definitions of a tree's states, of a crash, of a listing and of the
//! counts. Another crate calls such a function to use its law; the call does nothing at run time.
//! `docs/crash-safety.md` says the laws in words: those of a crash in "What a crash leaves", those
//! of a listing in "A tree at one moment".
ghost use Rattle.std.specs.Prelude.{◌≡◌, ◌≤◌, ◌++◌, ℕ, List, [], Option, Result, Bool};
ghost use Rattle.base_core.specs.Crash.{IsCrashImageIfUndoneNewestFirst, IsCrashImageUnderMap, IsDurableIfUndoneNewestFirst};
ghost use Rattle.base_core.specs.Faults.{Counts, CountsOnlyRise, CountsNewFaultWithCause, CountsNoNewFaultOrLackOfMemory};
ghost use Rattle.base_core.specs.Files.{Files, NameMap, HaveValidNamesAndBytes, HasOnlyNamesAmong};
ghost use Rattle.base_core.specs.Listed.{AreSortedAndEachBelowFolder, IsSortedListingOfFolder, IsSortedListOfAllNamesInMap};
ghost use Rattle.base_core.specs.Read.{OnlyReads};
ghost use Rattle.base_core.specs.Restart.{HasNameLedToFileNumberedAtLeast, IsAfterCrashIfUndoneNewestFirst};
ghost use Rattle.base_core.specs.Tree.{TreeState, IsCurrentOrOlderMap, IsWellFormed, files_of, files_under_map, with_newer_name_map};
ghost use Rattle.base_core.specs.Undone.{IsAfterCrash, IsDurable, IsCrashImage, IsCrashMap, with_change_replayed};

// ---- crashes

/// A crash that undoes only the newest changes of names may leave the files under each map of names
/// of a tree, the current one and the older ones.
pub fn a_crash_may_leave_the_files_as_read()
    // Such a crash may leave the files as read.
    ensures read { (v : TreeState) → IsCrashImageIfUndoneNewestFirst v (files_of v) }
    // Such a crash may leave the files under the current map of names, or under an older one.
    ensures by_map { (v : TreeState) (map : NameMap) → IsCurrentOrOlderMap v map
        → IsCrashImageIfUndoneNewestFirst v (files_under_map v map) }
{}

/// If crashes undo only the newest changes of names, a second crash leaves the same files as the
/// first. `v` is the tree before the first crash, and `w` the tree after it.
pub fn a_second_crash_in_order_leaves_the_same_files()
    ensures { (v w : TreeState) → IsAfterCrashIfUndoneNewestFirst v w → (image : Files)
        → IsCrashImageIfUndoneNewestFirst w image
        → (q : List ℕ) → image q ≡ files_of w q }
{}

/// Which files have to be durable. A crate that can read the journal implements this, and then has
/// the laws below for its own `depends_on`.
pub trait Durability {
    /// Whether the file of a name must be durable, given all files and the ignored names.
    ghost depends_on: { (List ℕ → Bool) → Files → List ℕ → Type 0 };
}

/// After a crash that undoes only the newest changes of names, a tree (`w`) is durable, whichever
/// files must be durable.
pub fn a_crash_in_order_leaves_a_durable_tree<D: Durability>()
    ensures { (ignored : List ℕ → Bool) (v w : TreeState) → IsAfterCrashIfUndoneNewestFirst v w
        → IsDurableIfUndoneNewestFirst (D.depends_on ignored) w }
{}

/// Let a tree be durable if crashes undo only the newest changes of names. Then a crash that leaves
/// one of its maps of names keeps the bytes of each file that must be durable by this map.
pub fn a_crash_in_order_keeps_the_files_of_a_durable_tree<D: Durability>()
    ensures { (ignored : List ℕ → Bool) (v : TreeState)
        → IsDurableIfUndoneNewestFirst (D.depends_on ignored) v
        → (map : NameMap) → IsCurrentOrOlderMap v map → (image : Files)
        → IsCrashImageUnderMap v map image
        → (q : List ℕ) → D.depends_on ignored (files_under_map v map) q → image q
        ≡ files_under_map v map q }
{}

/// A tree that is durable, if crashes undo only the newest changes of names, is also durable if
/// fewer files must be durable. `fewer` and `more` are the ignored names in the two cases.
pub fn a_tree_stays_durable_in_order_if_fewer_files_must_be<D: Durability>()
    ensures { (more fewer : List ℕ → Bool) (v : TreeState)
        → ((files : Files) (q : List ℕ) → D.depends_on fewer files q → D.depends_on more files q)
        → IsDurableIfUndoneNewestFirst (D.depends_on more) v
        → IsDurableIfUndoneNewestFirst (D.depends_on fewer) v }
{}

// ---- crashes that undo any of the changes

/// A crash may leave the files as read, and the files under each map of names that it may leave. It
/// may undo or keep each change of names, whatever it does with the earlier changes.
pub fn a_crash_may_undo_any_changes()
    // A crash may leave the files as read.
    ensures read { (v : TreeState) → IsCrashImage v (files_of v) }
    // A crash may leave the files under each map of names that it may leave.
    ensures by_map { (v : TreeState) (map : NameMap) → IsCrashMap v map
        → IsCrashImage v (files_under_map v map) }
    // After one more change of names, a crash may leave any map that it could leave before.
    ensures undone { (v : TreeState) (names map : NameMap) → IsCrashMap v map
        → IsCrashMap (with_newer_name_map v names) map }
    // After one more change of names, a crash may leave such a map with this change replayed.
    ensures kept { (v : TreeState) (names map : NameMap) → IsCrashMap v map
        → IsCrashMap (with_newer_name_map v names) (with_change_replayed v.names names map) }
{}

/// A crash that undoes only the newest changes of names is a special case of a crash, which may
/// undo any of them. So what holds after each crash also holds after such a crash.
pub fn a_crash_may_undo_the_last_changes()
    // A crash may leave the current map of names, and each older map since their last sync.
    ensures map { (v : TreeState) (map : NameMap) → IsCurrentOrOlderMap v map → IsCrashMap v map }
    // Files that such a crash may leave are files that a crash may leave.
    ensures image { (v : TreeState) (image : Files) → IsCrashImageIfUndoneNewestFirst v image
        → IsCrashImage v image }
    // A tree `w` after such a crash of `v` is a tree after a crash of `v`.
    ensures crash { (v w : TreeState) → IsAfterCrashIfUndoneNewestFirst v w → IsAfterCrash v w }
{}

/// Whatever a crash undoes, each name then leads where it led in one of the maps of names since
/// their last sync. If there is only the current map, it is the only map that a crash may leave.
pub fn a_crash_leaves_each_name_where_it_led()
    // Each name leads where it led in the current map or an older one.
    ensures leads { (v : TreeState) (map : NameMap) → IsCrashMap v map → (q : List ℕ)
        → (one : NameMap) × IsCurrentOrOlderMap v one × (map q ≡ one q) }
    // Without older maps, a crash leaves the current map.
    ensures one_map { (v : TreeState) → v.older ≡ [] → (map : NameMap) → IsCrashMap v map
        → map ≡ v.names }
{}

/// A durable tree is also durable in the weaker sense: if a crash undoes only the newest changes of
/// names.
pub fn a_durable_tree_is_durable_in_order<D: Durability>()
    ensures { (ignored : List ℕ → Bool) (v : TreeState) → IsDurable (D.depends_on ignored) v
        → IsDurableIfUndoneNewestFirst (D.depends_on ignored) v }
{}

/// A second crash leaves the same files as the first. `v` is the tree before the first crash, and
/// `w` the tree after it.
pub fn a_second_crash_leaves_the_same_files()
    ensures { (v w : TreeState) → IsAfterCrash v w → (image : Files) → IsCrashImage w image
        → (q : List ℕ) → image q ≡ files_of w q }
{}

/// After a crash a tree (`w`) is durable, whichever files must be durable.
pub fn a_crash_leaves_a_durable_tree<D: Durability>()
    ensures { (ignored : List ℕ → Bool) (v w : TreeState) → IsAfterCrash v w
        → IsDurable (D.depends_on ignored) w }
{}

/// If a crash of a durable tree leaves the map of names `map`, each file that must be durable by
/// this map keeps its bytes. `image` are the files after the crash.
pub fn a_crash_keeps_the_files_of_a_durable_tree<D: Durability>()
    ensures { (ignored : List ℕ → Bool) (v : TreeState) → IsDurable (D.depends_on ignored) v
        → (map : NameMap) → IsCrashMap v map → (image : Files) → IsCrashImageUnderMap v map image
        → (q : List ℕ) → D.depends_on ignored (files_under_map v map) q → image q
        ≡ files_under_map v map q }
{}

/// A durable tree is also durable if fewer files must be durable. `fewer` and `more` are the
/// ignored names in the two cases.
pub fn a_tree_stays_durable_if_fewer_files_must_be<D: Durability>()
    ensures { (more fewer : List ℕ → Bool) (v : TreeState)
        → ((files : Files) (q : List ℕ) → D.depends_on fewer files q → D.depends_on more files q)
        → IsDurable (D.depends_on more) v → IsDurable (D.depends_on fewer) v }
{}

// ---- names and files

/// Each folder of a well-formed state has exactly one listing, and all elements of the listing are
/// valid names. So a call of `list` always has an answer.
pub fn a_folder_has_one_listing()
    // There is a listing of each folder, and it has only names below the folder.
    ensures exists { (v : TreeState) → IsWellFormed v → (folder : List ℕ)
        → (names : List (List ℕ)) × IsSortedListingOfFolder folder v names
        × AreSortedAndEachBelowFolder folder names }
    // Two listings of one folder are equal.
    ensures one { (v : TreeState) (folder : List ℕ) (a b : List (List ℕ))
        → IsSortedListingOfFolder folder v a → IsSortedListingOfFolder folder v b → a ≡ b }
{}

/// A map with finitely many names has exactly one list of its names. Each map of a well-formed
/// state is such a map.
pub fn a_map_has_one_list_of_names()
    // If all names of the map are in the list `within`, there is a sorted list of its names.
    ensures exists { (map : NameMap) (within : List (List ℕ)) → HasOnlyNamesAmong within map
        → (names : List (List ℕ)) × IsSortedListOfAllNamesInMap map names }
    // Two lists of the names in one map are equal.
    ensures one { (map : NameMap) (a b : List (List ℕ)) → IsSortedListOfAllNamesInMap map a
        → IsSortedListOfAllNamesInMap map b
        → a ≡ b }
{}

/// Files under finitely many names have exactly one list of their names.
pub fn files_have_one_list_of_names()
    // If all names of the files are in the list `within`, there is a sorted list of their names.
    ensures exists { (files : Files) (within : List (List ℕ)) → HasOnlyNamesAmong within files
        → (names : List (List ℕ)) × IsSortedListOfAllNamesInMap files names }
    // Two lists of the names of the same files are equal.
    ensures one { (files : Files) (a b : List (List ℕ)) → IsSortedListOfAllNamesInMap files a
        → IsSortedListOfAllNamesInMap files b
        → a ≡ b }
{}

/// The files as read are under exactly the names as read.
pub fn the_files_as_read_have_the_names_as_read()
    ensures { (v : TreeState) (names : List (List ℕ)) → IsSortedListOfAllNamesInMap v.names names
        → IsSortedListOfAllNamesInMap (files_of v) names }
{}

/// The files of a well-formed state, under each of its maps of names, are finitely many. Each is
/// under a valid name and has fewer than 2^64 bytes.
pub fn the_files_of_a_well_formed_state_are_named_files()
    // Under each map, files have valid names and a possible length.
    ensures named { (v : TreeState) → IsWellFormed v → (map : NameMap) → IsCurrentOrOlderMap v map
        → HaveValidNamesAndBytes (files_under_map v map) }
    // The files as read have valid names and a possible length.
    ensures read { (v : TreeState) → IsWellFormed v → HaveValidNamesAndBytes (files_of v) }
    // The files as read are finitely many.
    ensures finite { (v : TreeState) → IsWellFormed v → (names : List (List ℕ))
        × HasOnlyNamesAmong names (files_of v) }
{}

// ---- calls in a row

/// What holds of the counts over each of two successive calls holds over both together. `a` are the
/// counts before the first call, `b` those between the calls, and `c` those after the second.
pub fn counts_of_consecutive_calls_compose()
    // If no count fell from a to b, and none from b to c, none fell from a to c.
    ensures goes_on { (a b c : Counts) → CountsOnlyRise a b → CountsOnlyRise b c
        → CountsOnlyRise a c }
    // A fault counted from a to b is counted from a to c.
    ensures cause_before { (a b c : Counts) → CountsNewFaultWithCause a b → CountsOnlyRise b c
        → CountsNewFaultWithCause a c }
    // A fault counted from b to c is counted from a to c.
    ensures cause_after { (a b c : Counts) → CountsOnlyRise a b → CountsNewFaultWithCause b c
        → CountsNewFaultWithCause a c }
    // Without new faults from a to b and from b to c there are none from a to c.
    ensures no_fault { (a b c : Counts) → CountsNoNewFaultOrLackOfMemory a b
        → CountsNoNewFaultOrLackOfMemory b c
        → CountsNoNewFaultOrLackOfMemory a c }
    // If no call is made, no count falls, and no fault is counted.
    ensures stays { (a : Counts) → CountsOnlyRise a a × CountsNoNewFaultOrLackOfMemory a a }
{}

/// If each call of a sequence only reads, and all but the last succeeded, the sequence only reads.
pub fn consecutive_reads_compose<A, B, E>()
    // A sequence without a call only reads: states and counts are unchanged.
    ensures none { (disk_fault : E) (h : List TreeState) (a : Counts) (value : A)
        → OnlyReads disk_fault h h a a (Ok value) }
    // If the first of two calls succeeded, and each only reads, both together only read. `value` is
    // the result of the first call, and `then` that of the second.
    ensures two { (disk_fault : E) (h0 h1 h2 : List TreeState) (a b c : Counts) (value : A)
        (then : Result B E)
        → OnlyReads disk_fault h0 h1 a b (Ok value) → OnlyReads disk_fault h1 h2 b c then
        → OnlyReads disk_fault h0 h2 a c then }
{}

/// `HasNameLedToFileNumberedAtLeast name b moments` says that at one of these moments the name led
/// to a file whose number is `b` or larger. Then this also holds for each smaller number (`begun`),
/// and for a longer list of moments (`later`).
pub fn a_file_made_in_a_run_was_made_in_an_earlier_one()
    // If a is at most b, a number that is at least b is at least a.
    ensures begun { (name : List ℕ) (a b : ℕ) (moments : List TreeState) → a ≤ b
        → HasNameLedToFileNumberedAtLeast name b moments
        → HasNameLedToFileNumberedAtLeast name a moments }
    // If this holds of some moments, it also holds of these with the moments `later`.
    ensures later { (name : List ℕ) (made : ℕ) (later moments : List TreeState)
        → HasNameLedToFileNumberedAtLeast name made moments
        → HasNameLedToFileNumberedAtLeast name made (later ++ moments) }
{}
