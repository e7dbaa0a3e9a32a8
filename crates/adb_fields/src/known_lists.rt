//! The results for the lists of a payload that were already searched for a repeated name. Many
//! words may refer to the same list. So the result for a long list is remembered, and the list is
//! searched only once (README of this crate, first paragraph). Serves `repeated_names`; the rule is
//! in `docs/formats.md`, "Names that stand twice".

ghost use Rattle.std.specs.Prelude.{◌≡◌, true, Some, map, IfOk, IfSome};
ghost use Rattle.adb_view.specs.Adb.{payload_of};
ghost use Rattle.adb_view.specs.Entries.{array_entries};
ghost use Rattle.adb_view.specs.Values.{is_sound, kind_at};
ghost use Rattle.adb_fields.specs.Fields.{are_all_sound};
ghost use Rattle.adb_fields.specs.KnownLists.{AreFirstRepeatsOfWords, repeated_name_pair_at};
ghost use Rattle.adb_fields.specs.NamedTexts.{plains_of_array_words};
ghost use Rattle.adb_fields.specs.Repeated.{NAME_INDEX, least_positions_of_name_twice_in_list, name_of};
ghost use Rattle.adb_view.specs.declared.tables.Kind.TheVariants as Kinds;

use crate::name_lists::object_names;
use crate::pairs::{Pair, least_pair_of_equal_names};
use crate::reads::objects_word;
use adb_view::{Adb, Arr, Val, Which};
use std::alloc::{AllocError, Global};
use std::collections::BTreeMap;

/// The most entries of a short list. The result for a short list is not remembered: the list is
/// searched again wherever it occurs, which takes no memory. The number does not change the
/// results.
const LONGEST_SHORT_LIST: usize = 16;

/// A payload, a table whose objects have names, and the results for the long lists of such objects
/// that were searched.
#[derive(Drop)]
pub(crate) struct KnownLists<'a> {
    /// The payload that contains the lists.
    adb: Adb<'a>,
    /// The table of the objects in these lists.
    which: Which,
    /// Maps the word of a list to the first pair of positions with the same name in this list; None
    /// if no name occurs twice in the list.
    pairs: BTreeMap<u32, Option<Pair>>,
    // The first field of the table is a text, the name.
    ghost named: { kind_at which NAME_INDEX ≡ Some Kinds.Text },
    // Each remembered pair is the first one of its list.
    ghost exact: { AreFirstRepeatsOfWords (payload_of adb) which pairs },
}

impl<'a> KnownLists<'a> {
    ghost use Rattle.adb_fields.specs.ListsOf.{AreRememberedListsOf};

    /// The object at the beginning, when no list of the payload was searched.
    pub(crate) fn new(alloc: Global, adb: Adb<'a>, which: Which) -> KnownLists<'a>
        // The first field of the table is a text, the name.
        requires { kind_at which NAME_INDEX ≡ Some Kinds.Text }
        ensures { AreRememberedListsOf adb.entry which result }
    {
        KnownLists {
            adb,
            which,
            pairs: BTreeMap::new(alloc),
        }
    }

    /// The first pair of positions at which two objects of the list with the word `list` have the
    /// same name; None if there is none. Only a long list allocates memory, once.
    pub(crate) fn least_positions_of_name_twice_in_list(
        &mut self,
        alloc: Global,
        list: Val,
    ) -> Result<Option<Pair>, AllocError>
        // The word `list` has a plain value: an array of objects of the table.
        requires { is_sound (payload_of self.old.adb) (Kinds.ObjArr self.old.which) list ≡ true }
        // On Ok, the result is the first pair of positions with one name in the list, if there is
        // one.
        ensures value { IfOk result (λ pair. pair
            ≡ repeated_name_pair_at (payload_of self.old.adb) self.old.which list) }
        // The object still remembers lists of objects of its table, in its payload.
        ensures lists { AreRememberedListsOf self.old.adb self.old.which self.new }
    {
        let objects = objects_word(self.adb, self.which, list);
        if objects.len() <= LONGEST_SHORT_LIST {
            return name_twice_in_list(alloc, self.adb, self.which, objects);
        }
        if let Some(pair) = self.kept_pair(list) {
            return Ok(pair);
        }
        let pair = name_twice_in_list(alloc, self.adb, self.which, objects)?;
        self.pairs.insert(list.word(), pair)?;
        Ok(pair)
    }

    /// The remembered result of the list with the word `list`: None if there is no result, and
    /// `Some(None)` if no name occurs twice in the list.
    fn kept_pair(&self, list: Val) -> Option<Option<Pair>>
        // A remembered result is the first pair of the list, or None if no name repeats.
        ensures { IfSome result (λ pair. pair
            ≡ repeated_name_pair_at (payload_of self.now.adb) self.now.which list) }
    {
        self.pairs.get(&list.word()).copied()
    }
}

/// The first pair of positions at which two of the objects have the same name, which is their first
/// field; None if there is none. `objects` has the words of the objects.
fn name_twice_in_list(
    alloc: Global,
    adb: Adb<'_>,
    which: Which,
    objects: Arr<'_>,
) -> Result<Option<Pair>, AllocError>
    // The words in `objects` have plain values: objects of the table `which`.
    requires sound { are_all_sound (payload_of adb) (Kinds.Obj which) (array_entries objects)
        ≡ true }
    // The first field of the table is a text, the name.
    requires kind { kind_at which NAME_INDEX ≡ Some Kinds.Text }
    // On Ok, the pair, or None, is that of the definition.
    ensures { IfOk result (λ pair. pair
        ≡ least_positions_of_name_twice_in_list (map name_of (plains_of_array_words
        (payload_of adb.entry)
        (Kinds.Obj which)
        (array_entries objects.entry)))) }
{
    let mut names = object_names(alloc, adb, which, objects)?;
    Ok(least_pair_of_equal_names(&mut names))
}
