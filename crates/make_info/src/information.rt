//! The information of a package, read from the values of `-I` of `mkpkg` (apk(8)).
//! The rules are in `docs/commands.md`, "`mkpkg`", the table of fields and the row of `invalid
//! package information`.

ghost use Rattle.dep_core.specs.Meets.{dependency};
ghost use Rattle.hex.specs.Hex.{decode_of};
ghost use Rattle.make_info.specs.Faults.{IsInfoFault};
ghost use Rattle.make_info.specs.FieldTexts.{field_text_in};
ghost use Rattle.make_info.specs.Fields.{field_values_of_decoded_hex, kind_of_field, untagged_dependency_in, dependency_values_of_parts, number, decimal_number_without_leading_zeros, nonempty_parts_between_spaces, values_by_kind, text_value_if, text_values, field_word};
ghost use Rattle.make_info.specs.Reading.{nonempty_part, has_no_name_or_version, items_with_option_text};
ghost use Rattle.make_info.specs.Information.{information, information_with_missing_reported_at_place, is_item_for, field_with_value, items_followed_by_values_of_field, FieldWithValue, first_offence_place_by_output_length_after, information_fields_with_installed_size};
ghost use Rattle.make_info.specs.Views.{field_text_view, item_view, value_view};
ghost use Rattle.std.specs.List.{find};
ghost use Rattle.std.specs.Option.{option_map};
ghost use Rattle.std.specs.Prelude.{◌≡◌, ◌==◌, ◌<◌, length, position, IfSome, Ok, Some, None, IfOk, IfErr, if◌then◌else◌, ◌++◌, ◌∷◌, [], OnOk, map, ℕ, Bool, List};
ghost use Rattle.adb_view.specs.Schema.{table};
ghost use Rattle.adb_view.specs.declared.tables.Which.TheVariants.{PkgInfo};
ghost use Rattle.command_core.specs.declared.values.OptionValue.{OptionValue};
ghost use Rattle.make_info.specs.declared.field.Field.{Field};
ghost use Rattle.make_info.specs.FirstOffence.{IsFirstOffencePlaceByOutputLength, HasNoOffendingOptionByOutputLength};
ghost use Rattle.make_info.specs.Named.{value_by_name, value_of_field_in_information_object};

use crate::fault::MakeFault;
use crate::field::{Field, Kind, read_number};
use crate::output::is_output_default_and_too_long;
use command_core::{Command, INFO, Values};
use dep_core::{Dep, is_package_name, read_dep};
use hex::FromHexError;
use std::alloc::{AllocError, Global};
use std::marker::Model;
use version_core::Version;

/// The byte between FIELD and VALUE in a value FIELD:VALUE of `-I`.
const COLON: u8 = b':';

/// A value FIELD:VALUE of `-I`, as a field and the text of its value.
#[derive(Clone, Copy)]
pub(crate) struct FieldText<'a> {
    /// The field that the value is for.
    pub field: Field,
    /// The text after the first `:`.
    pub value: &'a [u8],
}

impl<'a> FieldText<'a> {
    /// Reads FIELD:VALUE; FIELD ends before the first `:`. None: there is no `:`, or FIELD is no
    /// field.
    pub(crate) fn of(text: &'a [u8]) -> Option<FieldText<'a>>
        ensures { option_map field_text_view result ≡ field_text_in text.entry.now }
    {
        let colon = colon_in(text)?;
        let field = Field::of(&text[..colon])?;
        let value = &text[colon + 1..];
        Some(FieldText { field, value })
    }
}

// The offset of the first `:` in a text, counted from 0.
fn colon_in(text: &[u8]) -> Option<usize>
    ensures at { result ≡ position (λ b. b == COLON) text.now }
    ensures within { IfSome result (λ at. at < length text.now) }
{
    text.iter().position(|byte| *byte == COLON)
}

/// The information that the values of `-I` of `mkpkg` give (apk(8)). It borrows their texts from
/// the command.
#[derive(Drop)]
pub struct Information<'a> {
    /// The items, in the order given.
    pub(crate) entries: Items<'a>,
}

impl<'a> Model for Information<'a> {
    ghost use Rattle.std.specs.Prelude.{List};
    ghost use Rattle.make_info.specs.Information.{FieldWithValue};

    ghost Value = { List FieldWithValue };

    // Contracts see the list of the items.
    ghost view = { λ info. info.entries };
}

/// Reads the information of the package that a command is to make. `InfoBad` is at the first
/// argument that is refused: a value that is not allowed, a second value of a single field, or the
/// version if the output has no name of its own and NAME-VERSION.apk has more than 1,016 bytes; and
/// after the last argument if the name or the version is missing.
pub fn read_information<'a>(
    alloc: Global,
    command: &'a Command,
) -> Result<Information<'a>, MakeFault>
    // On Ok, the information is the one that the command describes.
    ensures ok { IfOk result (λ info. information command.entry.now ≡ Ok info) }
    // An error is that of the definition, or out of memory.
    ensures err { IfErr result (λ fault. IsInfoFault fault (information command.entry.now)) }
{
    read_values(alloc, command.values(), command.behind())
}

// Reads the values of `-I` one by one. `behind` is the place after the last argument, at which a
// missing name or version is reported.
#[tactic(auto, unfolding(crate::specs::Information::information_with_missing_reported_at_place))]
fn read_values<'a>(
    alloc: Global,
    values: &'a Values,
    behind: u32,
) -> Result<Information<'a>, MakeFault>
    // On Ok, the information is the one that the values describe.
    ensures ok { IfOk result
        (λ info. information_with_missing_reported_at_place values.entry.now behind ≡ Ok info) }
    // An error is that of the definition, or out of memory.
    ensures err { IfErr result (λ fault. IsInfoFault fault
        (information_with_missing_reported_at_place values.entry.now behind)) }
{
    // Whether the output is NAME-VERSION.apk, and this name is too long.
    let too_long = is_output_default_and_too_long(values);
    let mut entries = Items::new(alloc);
    for i in 0..values.len() {
        let value = values.get(i);
        // The values of all options are in one list.
        if value.letter != INFO {
            continue;
        }
        if !add_value(&mut entries, value.text.as_bytes(), too_long)? {
            return Err(MakeFault::InfoBad { place: value.place });
        }
    }
    if is_lacking(&entries) {
        return Err(MakeFault::InfoBad { place: behind });
    }
    Ok(Information { entries })
}

// Adds the items of a value of `-I` with this text. The result is false if the value is not
// allowed. `too_long`: a version is not allowed, as NAME-VERSION.apk would be too long.
#[tactic(auto, unfolding(crate::specs::Reading::items_with_option_text))]
fn add_value<'a>(
    entries: &mut Items<'a>,
    text: &'a [u8],
    too_long: bool,
) -> Result<bool, AllocError>
    // If the result is true, the new items are the old ones and those of the value. If it is false,
    // the definition allows no such value.
    ensures { IfOk result (λ good. (if good then Some entries.new else None)
        ≡ items_with_option_text too_long entries.old text.entry.now) }
{
    let Some(given) = FieldText::of(text) else {
        return Ok(false);
    };
    if too_long && given.field == Field::Version {
        return Ok(false);
    }
    if !given.field.kind().may_repeat() && entries.find(given.field).is_some() {
        return Ok(false);
    }
    entries.add(given)
}

// Whether no item gives the package's name, or none its version.
fn is_lacking(entries: &Items<'_>) -> bool
    ensures { result ≡ has_no_name_or_version entries.now }
{
    entries.find(Field::Name).is_none() || entries.find(Field::Version).is_none()
}

/// One value of a field.
#[derive(Drop)]
pub(crate) enum Value<'a> {
    /// A text as it was given.
    Text(&'a [u8]),
    /// The bytes that hexadecimal digits encode.
    Bytes(Vec<u8>),
    /// A number.
    Number(u64),
    /// A dependency without tag.
    Need(Dep<'a>),
}

/// An item of the information: a field, and one value of it.
#[derive(Drop)]
pub(crate) struct Item<'a> {
    /// The field.
    pub field: Field,
    /// The value for it.
    pub value: Value<'a>,
}

/// The items of an information, in the order given.
#[derive(Drop)]
pub(crate) struct Items<'a> {
    /// The allocator of decoded bytes.
    pub(crate) alloc: Global,
    /// The items, in the order given.
    pub(crate) entries: Vec<Item<'a>>,
}

impl<'a> Model for Items<'a> {
    ghost use Rattle.std.specs.Prelude.{List, map};
    ghost use Rattle.make_info.specs.Information.{FieldWithValue};
    ghost use Rattle.make_info.specs.Views.{item_view};

    ghost Value = { List FieldWithValue };

    // Contracts see the list of the items.
    ghost view = { λ entries. map item_view entries.entries.items };
}

impl<'a> Items<'a> {
    /// No items.
    pub(crate) fn new(alloc: Global) -> Items<'a>
        ensures { result ≡ [] }
    {
        Items {
            alloc,
            entries: Vec::new(alloc),
        }
    }

    /// The first item of a field, if there is one.
    pub(crate) fn find(&self, field: Field) -> Option<&Item<'a>>
        ensures { option_map (λ entry. item_view entry.now) result ≡ find
            (is_item_for field) self.now }
    {
        self.entries.iter().find(|entry| entry.field == field)
    }

    // Adds an item at the end.
    fn push(&mut self, field: Field, value: Value<'a>) -> Result<(), AllocError>
        // On Ok, the item is the last one.
        ensures { OnOk result (self.new ≡ self.old ++ field_with_value field
            (value_view value.entry) ∷ []) }
    {
        self.entries.push(Item { field, value })?;
        Ok(())
    }

    /// Adds the items of a value for its field. The result is false if the value is not in the
    /// field's grammar.
    pub(crate) fn add(&mut self, given: FieldText<'a>) -> Result<bool, AllocError>
        // If the result is true, the new items are the old ones and those of the value. If it is
        // false, the definition allows no such value.
        ensures { IfOk result (λ good. (if good then Some self.new else None)
            ≡ items_followed_by_values_of_field self.old given.entry.field
            (values_by_kind (kind_of_field given.entry.field) given.entry.value.now)) }
    {
        let FieldText { field, value } = given;
        match field.kind() {
            Kind::PackageName => self.add_text(field, value, is_package_name(value)),
            Kind::PackageVersion => self.add_text(field, value, Version::read(value).is_some()),
            Kind::AnyText => self.add_text(field, value, true),
            Kind::HexDigits => self.add_bytes(field, value),
            Kind::Number => self.add_number(field, value),
            Kind::Dependencies => self.add_needs(field, value),
            Kind::Texts => self.add_texts(field, value),
        }
    }

    // Adds an item with this text, if the rule of the field allows it (`is_good`). The result is
    // false if the rule does not.
    fn add_text(&mut self, field: Field, text: &'a [u8], is_good: bool) -> Result<bool, AllocError>
        // If the result is true, the new items are the old ones and those of the value. If it is
        // false, the definition allows no such value.
        ensures { IfOk result (λ good. (if good then Some self.new else None)
            ≡ items_followed_by_values_of_field self.old field
            (text_value_if is_good text.entry.now)) }
    {
        if !is_good {
            return Ok(false);
        }
        self.push(field, Value::Text(text))?;
        Ok(true)
    }

    // Adds an item with the bytes that hexadecimal digits encode. The result is false if the text
    // is not hexadecimal.
    fn add_bytes(&mut self, field: Field, digits: &'a [u8]) -> Result<bool, AllocError>
        // If the result is true, the new items are the old ones and those of the value. If it is
        // false, the definition allows no such value.
        ensures { IfOk result (λ good. (if good then Some self.new else None)
            ≡ items_followed_by_values_of_field self.old field (field_values_of_decoded_hex
            (decode_of digits.entry.now))) }
    {
        match hex::decode(self.alloc, digits) {
            Ok(bytes) => {
                self.push(field, Value::Bytes(bytes))?;
                Ok(true)
            }
            Err(FromHexError::OutOfMemory) => Err(AllocError),
            Err(_) => Ok(false),
        }
    }

    // Adds an item with the number that the digits encode. The result is false if the text is no
    // number below 2^64, or has a leading zero.
    fn add_number(&mut self, field: Field, digits: &[u8]) -> Result<bool, AllocError>
        // If the result is true, the new items are the old ones and those of the value. If it is
        // false, the definition allows no such value.
        ensures { IfOk result (λ good. (if good then Some self.new else None)
            ≡ items_followed_by_values_of_field self.old field (option_map (λ n. number n ∷ [])
            (decimal_number_without_leading_zeros digits.now))) }
    {
        let Some(n) = read_number(digits) else {
            return Ok(false);
        };
        self.push(field, Value::Number(n))?;
        Ok(true)
    }

    // Adds an item for each dependency in the text, which has spaces between them. The result is
    // false if one of them is no dependency without tag.
    fn add_needs(&mut self, field: Field, texts: &'a [u8]) -> Result<bool, AllocError>
        // If the result is true, the new items are the old ones and those of the value. If it is
        // false, the definition allows no such value.
        ensures { IfOk result (λ good. (if good then Some self.new else None)
            ≡ items_followed_by_values_of_field self.old field (dependency_values_of_parts
            (nonempty_parts_between_spaces texts.entry.now))) }
    {
        for part in texts.split(|byte| *byte == b' ') {
            if !self.add_need(field, part)? {
                return Ok(false);
            }
        }
        Ok(true)
    }

    // Adds an item with the dependency of a part between spaces, or no item for an empty part. The
    // result is false if the part is no dependency without tag.
    fn add_need(&mut self, field: Field, part: &'a [u8]) -> Result<bool, AllocError>
        // If the result is true, the new items are the old ones and those of the value. If it is
        // false, the definition allows no such value.
        ensures { IfOk result (λ good. (if good then Some self.new else None)
            ≡ items_followed_by_values_of_field self.old field (dependency_values_of_parts
            (nonempty_part part.entry.now))) }
    {
        if part.is_empty() {
            return Ok(true);
        }
        match read_need(part) {
            Some(dep) => {
                self.push(field, Value::Need(dep))?;
                Ok(true)
            }
            None => Ok(false),
        }
    }

    // Adds an item for each text between spaces that is not empty. The result is always true.
    fn add_texts(&mut self, field: Field, texts: &'a [u8]) -> Result<bool, AllocError>
        // If the result is true, the new items are the old ones and those of the value. If it is
        // false, the definition allows no such value.
        ensures { IfOk result (λ good. (if good then Some self.new else None)
            ≡ items_followed_by_values_of_field self.old field (Some (text_values
            (nonempty_parts_between_spaces texts.entry.now)))) }
    {
        for part in texts.split(|byte| *byte == b' ') {
            if !part.is_empty() {
                self.push(field, Value::Text(part))?;
            }
        }
        Ok(true)
    }
}

/// The dependency without tag that a text is (apk-package(5)).
pub fn read_need(text: &[u8]) -> Option<Dep<'_>>
    ensures { option_map dependency result ≡ untagged_dependency_in text.entry.now }
{
    let dep = read_dep(text)?;
    if dep.tag.is_some() {
        return None;
    }
    Some(dep)
}

/// The value of `-I` for a field is in a package's information at the field whose name in the table
/// is the field's word: all eighteen except the priority in replacing, which is no field of the
/// information.
pub fn an_option_gives_the_field_of_its_name()
    ensures { (f : Field) (info : List FieldWithValue) (size : ℕ)
        → value_by_name (field_word f) (table PkgInfo)
        (information_fields_with_installed_size info size)
        ≡ value_of_field_in_information_object f info }
{}

/// The value of `-I` that is reported is the first that offends, in the order given: it is not
/// allowed, it is a second one of its field, or it is the version that makes the output's name too
/// long. If none is reported, none offends.
pub fn the_first_value_that_offends_is_reported()
    // A reported value is the first that is refused.
    ensures offends { (too_long : Bool) (values : List OptionValue) (place : ℕ)
        → first_offence_place_by_output_length_after too_long [] values ≡ Some place
        → IsFirstOffencePlaceByOutputLength too_long values place }
    // If none is reported, none is refused.
    ensures allowed { (too_long : Bool) (values : List OptionValue)
        → first_offence_place_by_output_length_after too_long [] values ≡ None
        → HasNoOffendingOptionByOutputLength too_long values }
{}
